//! The NOTIFY to a subscriber.
ghost use Rattle.std.specs.Prelude.{◌≡◌, IfOk, OnErr, OnOk, codes};
ghost use Rattle.mmtel_leg.specs.Dialogues.{after_request};
ghost use Rattle.mmtel_leg.specs.Legs.{with_dialogue};
ghost use Rattle.mmtel_mwi.specs.Notifies.{notify_lines, notify_request_in, remaining_seconds, subscription_state};
ghost use Rattle.mmtel_mwi.specs.Summaries.{messages_waiting, summary, voice_counts};

use crate::counts::Counts;
use mmtel_base::{List, NoMemory, Text, add_number};
use mmtel_compose::own_request;
use mmtel_leg::{CallerLeg, Standing};
use mmtel_message::{Line, Msg, OwnAddress, add_bytes, add_line};
use mmtel_types::Moment;
use std::alloc::Global;

fn messages_waiting(fresh: u32) -> &'static [u8]
    ensures { result.now ≡ messages_waiting fresh }
{
    if fresh == 0 { b"no" } else { b"yes" }
}

/// The numbers of new and old voice messages, and of each the urgent ones.
fn voice_counts(alloc: Global, counts: &Counts) -> Result<Text, NoMemory>
    ensures { IfOk result (λ t. t ≡ voice_counts counts.now) }
{
    let mut out = Text::new();
    add_number(alloc, &mut out, u64::from(counts.fresh))?;
    out.push(alloc, b"/")?;
    add_number(alloc, &mut out, u64::from(counts.old))?;
    out.push(alloc, b" (")?;
    add_number(alloc, &mut out, u64::from(counts.urgent_fresh))?;
    out.push(alloc, b"/")?;
    add_number(alloc, &mut out, u64::from(counts.urgent_old))?;
    out.push(alloc, b")")?;
    Ok(out)
}

/// The summary of a mailbox that a subscriber gets, as `application/simple-message-summary` (RFC 3842 §5.2): whether new messages wait, and how many new and old voice messages
/// there are, with the urgent ones of each.
///
/// # Errors
///
/// Out of memory only.
#[tactic(auto, unfolding(crate::specs::Summaries::summary))]
pub fn summary(alloc: Global, counts: &Counts) -> Result<Text, NoMemory>
    ensures summary { IfOk result (λ t. t ≡ summary counts.now) }
{
    let voice = voice_counts(alloc, counts)?;
    let mut out = Text::of(alloc, b"Messages-Waiting: ")?;
    out.push(alloc, messages_waiting(counts.fresh))?;
    out.push(alloc, b"\r\nVoice-Message: ")?;
    out.push(alloc, voice.bytes())?;
    out.push(alloc, b"\r\n")?;
    Ok(out)
}

/// The whole seconds from now until a moment; 0 where it is not later than now.
pub fn remaining_seconds(until: Moment, now: Moment) -> u64
    ensures { result ≡ remaining_seconds until now }
{
    until.ms().saturating_sub(now.ms()) / 1000
}

/// The value of Subscription-State: for how long the subscription is active, or that it has timed out (RFC 6665 §4.1.3).
fn subscription_state(alloc: Global, last: bool, seconds: u64) -> Result<Text, NoMemory>
    ensures { IfOk result (λ t. t ≡ subscription_state last seconds) }
{
    if last {
        return Text::of(alloc, b"terminated;reason=timeout");
    }
    let mut out = Text::of(alloc, b"active;expires=")?;
    add_number(alloc, &mut out, seconds)?;
    Ok(out)
}

/// The header fields of a NOTIFY.
#[tactic(auto, unfolding(crate::specs::Notifies::notify_lines, mmtel_message::specs::Message::line))]
fn notify_lines(alloc: Global, last: bool, seconds: u64) -> Result<List<Line>, NoMemory>
    ensures { IfOk result (λ ls. ls ≡ notify_lines last seconds) }
{
    let state = subscription_state(alloc, last, seconds)?;
    let mut lines = List::new();
    add_bytes(alloc, &mut lines, b"Event", b"message-summary")?;
    add_line(alloc, &mut lines, b"Subscription-State", state)?;
    add_bytes(
        alloc,
        &mut lines,
        b"Content-Type",
        b"application/simple-message-summary",
    )?;
    Ok(lines)
}

/// The NOTIFY in the dialog of this leg.
pub fn notify_request(
    alloc: Global,
    sip: OwnAddress,
    leg: &mut CallerLeg<Standing>,
    branch: &Text,
    last: bool,
    seconds: u64,
    counts: &Counts,
) -> Result<Msg, NoMemory>
    ensures message { IfOk result (λ m. m ≡ notify_request_in sip leg.old.dialogue branch.now last seconds counts.now) }
    ensures counted { OnOk result (leg.new ≡ with_dialogue leg.old (after_request leg.old.dialogue (codes "NOTIFY"))) }
    ensures refused { OnErr result (leg.new ≡ leg.old) }
{
    let lines = notify_lines(alloc, last, seconds)?;
    let body = summary(alloc, counts)?;
    own_request(alloc, leg, b"NOTIFY", sip, branch, &lines, body.bytes())
}
