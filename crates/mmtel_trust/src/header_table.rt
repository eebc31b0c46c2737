//! What is passed on of a message that is relayed, and the From of a message that is made of it.
ghost use Rattle.std.specs.Prelude.{◌≡◌, ◌∷◌, ◌++◌, IfOk, OnOk, codes, List, [], false, map};
ghost use Rattle.mmtel_identity.specs.TrustDomain.{shows_identity, unless_restricted};
ghost use Rattle.mmtel_message.specs.Message.{first_value, lines_named};
ghost use Rattle.mmtel_history.specs.HistoryInfo.{masked_list};
ghost use Rattle.mmtel_history.specs.declared.entries.Entry.{Entry};
ghost use Rattle.mmtel_trust.specs.HeaderTable.{passes, passes_option, is_shown, asserted_lines, privacy_lines, other_lines};
ghost use Rattle.mmtel_trust.specs.HeaderTable.{passed_lines, history_line, history_lines, carries_history, carried_history};
ghost use Rattle.mmtel_trust.specs.HeaderTable.{shown_lines, anonymous_party, named_text, attempt_from, name_addr_in};

use crate::kinds::{HeaderKind, kind_of};
use crate::privacy::restricted_text;
use crate::reading::{display_and_uri, name_addr_in};
use mmtel_history::{ANONYMOUS, Entry, History, write_entry};
use mmtel_identity::{shows_identity, unless_restricted};
use mmtel_lex::{List, NameAddr, NoMemory, Text, print_name_addr};
use mmtel_message::{Line, Lines, Msg, Start, add_bytes, add_line, add_named, first_of};
use std::alloc::Global;

/// From which peer a message came, and what of its sender may be shown.
#[derive(Clone, Copy, Debug, PartialEq, Eq)]
pub struct Facing {
    /// The peer from which it was received is trusted.
    pub from_trusted: bool,
    /// The sender's side of the call is restricted.
    pub restricted: bool,
    /// The identity of the sender is presented to the other side (TS 24.607, TS 24.608).
    pub present: bool,
    /// Untrusted peers are shown no entry of the call's History-Info unmasked: the Privacy of the INVITE that opened the call has `history` (RFC 7044 §10.1).
    pub mask_all: bool,
    /// The option `100rel` is passed (RFC 3262 §3).
    pub reliable: bool,
    /// The option `timer` is passed, and so are Session-Expires and Min-SE (RFC 4028 §4, §5).
    pub timer: bool,
}

/// Whether the asserted identities are passed.
fn is_asserted(facing: Facing, to_trusted: bool) -> bool
    ensures { result ≡ shows_identity facing.from_trusted facing.present to_trusted facing.restricted }
{
    shows_identity(
        facing.from_trusted,
        facing.present,
        to_trusted,
        facing.restricted,
    )
}

fn add_asserted(
    alloc: Global,
    out: &mut List<Line>,
    facing: Facing,
    to_trusted: bool,
    lines: &Lines<'_>,
) -> Result<(), NoMemory>
    ensures { OnOk result (out.new ≡ out.old ++ asserted_lines facing to_trusted lines.now.values) }
{
    if is_asserted(facing, to_trusted) {
        return add_named(alloc, out, b"P-Asserted-Identity", lines);
    }
    Ok(())
}

#[tactic(auto, unfolding(mmtel_message::specs::Message::line))]
fn add_privacy(
    alloc: Global,
    out: &mut List<Line>,
    facing: Facing,
    to_trusted: bool,
    message: &Msg,
) -> Result<(), NoMemory>
    ensures { OnOk result (out.new ≡ out.old ++ privacy_lines facing to_trusted message.now.lines) }
{
    if !to_trusted {
        return Ok(());
    }
    if facing.restricted {
        let words = restricted_text(alloc, message)?;
        return add_line(alloc, out, b"Privacy", words);
    }
    add_named(alloc, out, b"Privacy", &message.lines())
}

/// Whether an option that a message supports or requires is passed.
fn passes_option(facing: Facing, option: &[u8]) -> bool
    ensures { result ≡ passes_option facing option.now }
{
    option == b"histinfo".as_slice()
        || facing.reliable && option == b"100rel".as_slice()
        || facing.timer && option == b"timer".as_slice()
}

/// Whether a line of the kind, with this value, is among the other lines that are passed.
fn passes(facing: Facing, to_trusted: bool, kind: HeaderKind, value: &[u8]) -> bool
    ensures { result ≡ passes facing to_trusted kind value.now }
{
    match kind {
        HeaderKind::From => false,
        HeaderKind::To => false,
        HeaderKind::Contact => false,
        HeaderKind::Asserted => false,
        HeaderKind::Served => false,
        HeaderKind::Privacy => false,
        HeaderKind::History => false,
        HeaderKind::Options => passes_option(facing, value),
        HeaderKind::Session => facing.timer,
        HeaderKind::Passed => true,
        HeaderKind::Personal => !facing.restricted,
        HeaderKind::Trusted => facing.from_trusted && to_trusted,
        HeaderKind::Other => false,
    }
}

#[tactic(auto, unfolding(crate::specs::HeaderTable::is_shown))]
fn is_shown(facing: Facing, to_trusted: bool, name: &[u8], value: &[u8]) -> bool
    ensures { result ≡ is_shown facing to_trusted (name.now, value.now) }
{
    passes(facing, to_trusted, kind_of(name), value)
}

/// Adds the line of this name and value, where it is among the others that are passed.
#[tactic(auto, unfolding(mmtel_message::specs::Message::line))]
fn add_other(
    alloc: Global,
    out: &mut List<Line>,
    facing: Facing,
    to_trusted: bool,
    name: &[u8],
    value: &[u8],
) -> Result<(), NoMemory>
    ensures { OnOk result (out.new ≡ out.old ++ other_lines facing to_trusted ((name.now, value.now) ∷ [])) }
{
    if !is_shown(facing, to_trusted, name, value) {
        return Ok(());
    }
    add_bytes(alloc, out, name, value)
}

fn add_others(
    alloc: Global,
    out: &mut List<Line>,
    facing: Facing,
    to_trusted: bool,
    lines: &Lines<'_>,
) -> Result<(), NoMemory>
    ensures { OnOk result (out.new ≡ out.old ++ other_lines facing to_trusted lines.now.values) }
{
    for i in 0..lines.len() {
        let (name, value) = lines.at(i);
        add_other(alloc, out, facing, to_trusted, name, value)?;
    }
    Ok(())
}

/// Adds a line of History-Info for each entry.
#[tactic(auto, unfolding(mmtel_message::specs::Message::line))]
fn add_entries(alloc: Global, out: &mut List<Line>, entries: &[Entry]) -> Result<(), NoMemory>
    ensures { OnOk result (out.new ≡ out.old ++ map history_line entries.now) }
{
    for entry in entries {
        let value = write_entry(alloc, entry)?;
        add_line(alloc, out, b"History-Info", value)?;
    }
    Ok(())
}

fn add_history(
    alloc: Global,
    out: &mut List<Line>,
    history: &History,
    mask_all: bool,
    to_trusted: bool,
) -> Result<(), NoMemory>
    ensures { OnOk result (out.new ≡ out.old ++ history_lines mask_all to_trusted history.now) }
{
    if to_trusted {
        return add_entries(alloc, out, history.entries());
    }
    let masked = history.masked(alloc, mask_all)?;
    add_entries(alloc, out, masked.entries())
}

/// The lines of a call's History-Info: towards a trusted peer the list as it is; towards any other peer masked, either the hidden entries, or all where the Privacy of the INVITE
/// that opened the call has `history`. A 181 of the server's own has these lines (RFC 7044 §5 and §10.1).
///
/// # Errors
///
/// Out of memory only.
pub fn history_lines(
    alloc: Global,
    history: &History,
    mask_all: bool,
    to_trusted: bool,
) -> Result<List<Line>, NoMemory>
    ensures lines { IfOk result (λ ls. ls ≡ history_lines mask_all to_trusted history.now) }
    // An untrusted peer sees nothing of the list that masking removes.
    ensures masked { (other : List Entry) → to_trusted ≡ false → masked_list mask_all other ≡ masked_list mask_all history.now →
        IfOk result (λ ls. ls ≡ history_lines mask_all false other) }
{
    let mut out = List::new();
    add_history(alloc, &mut out, history, mask_all, to_trusted)?;
    Ok(out)
}

/// Whether a message with this start line carries the call's History-Info: an INVITE, or a 181.
fn carries_history(start: &Start) -> bool
    ensures { result ≡ carries_history start.now }
{
    match start {
        Start::Request { method, uri: _ } => method.bytes() == b"INVITE".as_slice(),
        Start::Status { code, phrase: _ } => *code == 181,
    }
}

/// Adds the call's History-Info, where a message with this start line carries it.
fn add_carried_history(
    alloc: Global,
    out: &mut List<Line>,
    facing: Facing,
    to_trusted: bool,
    history: &History,
    start: &Start,
) -> Result<(), NoMemory>
    ensures { OnOk result (out.new ≡ out.old ++ carried_history facing to_trusted history.now start.now) }
{
    if carries_history(start) {
        return add_history(alloc, out, history, facing.mask_all, to_trusted);
    }
    Ok(())
}

fn shown_lines(
    alloc: Global,
    message: &Msg,
    history: &History,
    facing: Facing,
    to_trusted: bool,
) -> Result<List<Line>, NoMemory>
    ensures { IfOk result (λ ls. ls ≡ shown_lines facing to_trusted history.now message.now.start message.now.lines) }
{
    let lines = message.lines();
    let mut out = List::new();
    add_asserted(alloc, &mut out, facing, to_trusted, &lines)?;
    add_privacy(alloc, &mut out, facing, to_trusted, message)?;
    add_carried_history(
        alloc,
        &mut out,
        facing,
        to_trusted,
        history,
        message.start(),
    )?;
    add_others(alloc, &mut out, facing, to_trusted, &lines)?;
    Ok(out)
}

/// The lines of a message that are passed on to a peer, which is trusted or not: the asserted identities, Privacy, in an INVITE or a 181 the call's History-Info, and then the
/// others in the order received, by the header table.
///
/// # Errors
///
/// Out of memory only.
pub fn shown(
    alloc: Global,
    message: &Msg,
    history: &History,
    facing: &Facing,
    to_trusted: bool,
) -> Result<List<Line>, NoMemory>
    ensures lines { IfOk result (λ ls. ls ≡ shown_lines facing.now to_trusted history.now message.now.start message.now.lines) }
    // The only History-Info passed is the call's list, whatever the message has there: in an INVITE or a 181 its lines, and in any other message none.
    ensures history { IfOk result (λ ls. lines_named (codes "History-Info") ls ≡ carried_history facing.now to_trusted history.now message.now.start) }
    // An untrusted peer sees nothing of the list that masking removes.
    ensures masked { (other : List Entry) → to_trusted ≡ false → masked_list facing.now.mask_all other ≡ masked_list facing.now.mask_all history.now →
        IfOk result (λ ls. ls ≡ shown_lines facing.now false other message.now.start message.now.lines) }
    // An empty list adds no line.
    ensures bare { history.now ≡ [] → IfOk result (λ ls. ls ≡ passed_lines facing.now to_trusted [] message.now.lines) }
{
    shown_lines(alloc, message, history, *facing, to_trusted)
}

/// The anonymous party: display name and URI (RFC 3323 §4.1.1.3).
fn anonymous_party(alloc: Global) -> Result<NameAddr, NoMemory>
    ensures { IfOk result (λ n. n ≡ anonymous_party) }
{
    let display = Text::of(alloc, b"\"Anonymous\"")?;
    let uri = Text::of(alloc, ANONYMOUS)?;
    Ok(NameAddr {
        display,
        uri,
        params: List::new(),
    })
}

/// The text of a display name and a URI, or of the anonymous party.
fn named_text(alloc: Global, name: Option<NameAddr>) -> Result<Text, NoMemory>
    ensures { IfOk result (λ t. t ≡ named_text name) }
{
    match name {
        None => print_name_addr(alloc, &anonymous_party(alloc)?),
        Some(name) => display_and_uri(alloc, name),
    }
}

fn from_name(
    alloc: Global,
    restricted: bool,
    lines: &Lines<'_>,
) -> Result<Option<NameAddr>, NoMemory>
    ensures { IfOk result (λ n. n ≡ unless_restricted restricted (name_addr_in (first_value (codes "From") lines.now.values))) }
{
    name_addr_in(
        alloc,
        unless_restricted(restricted, first_of(lines, b"From")),
    )
}

/// From of an attempt that is made of a message: `"Anonymous" <sip:anonymous@anonymous.invalid>` where the call is restricted, else the display name and the URI as received; and
/// `;tag=` with the tag (RFC 3261 §19.3, RFC 3323 §4.1.1.3).
///
/// # Errors
///
/// Out of memory only.
pub fn attempt_from(
    alloc: Global,
    message: &Msg,
    restricted: bool,
    tag: &[u8],
) -> Result<Text, NoMemory>
    ensures text { IfOk result (λ t. t ≡ attempt_from restricted tag.now message.now.lines) }
{
    let name = from_name(alloc, restricted, &message.lines())?;
    let mut out = named_text(alloc, name)?;
    out.push(alloc, b";tag=")?;
    out.push(alloc, tag)?;
    Ok(out)
}
