//! INVITEs that were abandoned before they had a final response.
ghost use Rattle.std.specs.Prelude.{◌≡◌, ◌<◌, IfOk, OnErr, OnOk, Some, None, codes, if◌then◌else◌, position, true};
ghost use Rattle.std.specs.Option.{option_copied, option_or};
ghost use Rattle.mmtel_compose.specs.Attempts.{as_callee};
ghost use Rattle.mmtel_compose.specs.ReceivedMessages.{status_of};
ghost use Rattle.mmtel_output.specs.AbandonedInvites.{after_ack_and_bye, after_due_cancel, after_provisional, dialogue_before};
ghost use Rattle.mmtel_output.specs.AbandonedInvites.{dialogue_of_success, fork_at, is_dialog_of_tag, is_of_branch, on_response, on_success};
ghost use Rattle.mmtel_output.specs.Sending.{with_ack, with_bye};
ghost use Rattle.mmtel_leg.specs.Dialogues.{after_request};
ghost use Rattle.mmtel_leg.specs.Remotes.{remote_of};
ghost use Rattle.mmtel_types.specs.declared.sides.Side.TheVariants.{Callee};

use crate::outputs::{StepOutput, push_item};
use crate::sent_invites::{AbandonedInvite, early_remote, is_cancellable};
use mmtel_base::{NoMemory, copied_texts};
use mmtel_compose::{ReceivedMessage, as_callee, status_of};
use mmtel_leg::{Dialogue, Remote};
use mmtel_message::OwnAddress;
use mmtel_sip_rules::is_of_dialog;
use mmtel_transaction::TKey;
use mmtel_types::Side;
use std::alloc::Global;

impl AbandonedInvite {
    /// Whether it is the INVITE of this branch.
    fn is_of_branch(&self, branch: &[u8]) -> bool
        ensures { result ≡ is_of_branch branch.now self.now }
    {
        self.invite.branch.bytes() == branch
    }
}

/// The position of the abandoned INVITE of this branch, if there is one.
pub fn abandoned_at(abandoned: &[AbandonedInvite], branch: &[u8]) -> Option<usize>
    ensures place { result ≡ position (is_of_branch branch.now) abandoned.now }
{
    abandoned.iter().position(|one| one.is_of_branch(branch))
}

/// Whether the dialog of a 2xx with this tag is this one, which had its BYE.
fn is_dialog_of_tag(within: bool, tag: &[u8], dialogue: &Dialogue) -> bool
    ensures { result ≡ is_dialog_of_tag within tag.now dialogue.now }
{
    is_of_dialog(within, dialogue.remote_tag.bytes(), tag)
}

/// The position of the dialog of a 2xx with this tag.
fn ended_dialog_at(within: bool, tag: &[u8], forks: &[Dialogue]) -> Option<usize>
    ensures { result ≡ position (is_dialog_of_tag within tag.now) forks.now }
{
    forks
        .iter()
        .position(|fork| is_dialog_of_tag(within, tag, fork))
}

fn ended_dialog<'a>(within: bool, tag: &[u8], forks: &'a [Dialogue]) -> Option<&'a Dialogue>
    ensures { option_copied result ≡ fork_at forks.now (position (is_dialog_of_tag within tag.now) forks.now) }
{
    match ended_dialog_at(within, tag, forks) {
        None => None,
        Some(at) => Some(&forks[at]),
    }
}

/// A copy of the other side's tag, target and route set.
fn copied(alloc: Global, remote: &Remote) -> Result<Remote, NoMemory>
    ensures { IfOk result (λ r. r ≡ remote.now) }
{
    let tag = remote.tag.copied(alloc)?;
    let target = remote.target.copied(alloc)?;
    let routes = copied_texts(alloc, remote.routes.items())?;
    Ok(Remote {
        tag,
        target,
        routes,
    })
}

/// A dialog with the callee's tag, target and route set and with this number of the last request, where these are of the dialog of this tag.
fn early_dialogue(
    alloc: Global,
    remote: &Remote,
    last_cseq: u64,
    tag: &[u8],
    dialogue: Dialogue,
) -> Result<Dialogue, NoMemory>
    ensures { IfOk result (λ d. d ≡ dialogue_before (Some remote.now) last_cseq tag.now dialogue) }
{
    if remote.tag.bytes() != tag {
        return Ok(dialogue);
    }
    let remote = copied(alloc, remote)?;
    let mut dialogue = dialogue;
    dialogue.local_cseq = last_cseq;
    Ok(dialogue.with_remote(remote))
}

/// The dialog of a tag before a 2xx: the early one, in which this was the number of the last request, or the one that the INVITE began.
fn dialogue_before(
    alloc: Global,
    early: Option<&Remote>,
    last_cseq: u64,
    tag: &[u8],
    dialogue: &Dialogue,
) -> Result<Dialogue, NoMemory>
    ensures { IfOk result (λ d. d ≡ dialogue_before (option_copied early.entry) last_cseq tag.now (as_callee dialogue.now)) }
{
    let dialogue = as_callee(dialogue.copied(alloc)?);
    match early {
        None => Ok(dialogue),
        Some(said) => early_dialogue(alloc, said, last_cseq, tag, dialogue),
    }
}

/// The dialog that a 2xx makes or confirms.
fn dialogue_of_success(
    alloc: Global,
    within: bool,
    early: Option<&Remote>,
    last_cseq: u64,
    dialogue: &Dialogue,
    remote: Remote,
) -> Result<Dialogue, NoMemory>
    ensures { IfOk result (λ d. d ≡ dialogue_of_success within (option_copied early.entry) last_cseq dialogue.now remote) }
{
    if within {
        return dialogue.copied(alloc);
    }
    let before = dialogue_before(alloc, early, last_cseq, remote.tag.bytes(), dialogue)?;
    Ok(before.with_remote(remote))
}

/// The early dialog, where this response makes one: the first is kept.
fn keep_first(remote: Option<Remote>, early: &mut Option<Remote>)
    ensures { early.new ≡ option_or early.old remote }
{
    if early.is_none() {
        *early = remote;
    }
}

/// Records a provisional response of an abandoned INVITE by this client transaction, with the callee's tag, target and route set in it.
fn note_provisional(
    key: TKey,
    received: &ReceivedMessage,
    remote: Remote,
    abandoned: &mut AbandonedInvite,
)
    requires { remote ≡ remote_of Callee received.now.parsed.lines }
    ensures { abandoned.new ≡ after_provisional key received.now.parsed abandoned.old }
{
    abandoned.invite.key = Some(key);
    abandoned.invite.provisional = true;
    let said = early_remote(status_of(received.message.start()), remote);
    keep_first(said, &mut abandoned.invite.early);
}

/// An abandoned INVITE, where it stays.
fn kept_if(stays: bool, abandoned: AbandonedInvite) -> Option<AbandonedInvite>
    ensures { result ≡ (if stays then Some abandoned else None) }
{
    if stays {
        return Some(abandoned);
    }
    drop(abandoned);
    None
}

impl StepOutput {
    /// The ACK of a 2xx of an abandoned INVITE and the BYE of its dialog.
    fn acknowledge_and_end(
        &mut self,
        alloc: Global,
        sip: OwnAddress,
        dialogue: &mut Dialogue,
    ) -> Result<(), NoMemory>
        ensures done { OnOk result (self.new ≡ with_bye sip dialogue.old (with_ack sip dialogue.old self.old)) }
        ensures counted { OnOk result (dialogue.new ≡ after_request dialogue.old (codes "BYE")) }
        ensures rows { OnErr result (self.new.rows ≡ self.old.rows) }
    {
        self.acknowledge_in(alloc, sip, dialogue)?;
        self.send_bye_in(alloc, sip, dialogue)
    }

    /// The same for the dialog that a 2xx of an abandoned INVITE made, which is kept.
    fn end_fork(
        &mut self,
        alloc: Global,
        sip: OwnAddress,
        abandoned: &mut AbandonedInvite,
        dialogue: Dialogue,
    ) -> Result<(), NoMemory>
        ensures output { OnOk result (self.new ≡ (after_ack_and_bye sip abandoned.old dialogue self.old).output) }
        ensures remaining { OnOk result (Some abandoned.new ≡ (after_ack_and_bye sip abandoned.old dialogue self.old).remaining) }
        ensures rows { OnErr result (self.new.rows ≡ self.old.rows) }
    {
        let mut dialogue = dialogue;
        match self.acknowledge_and_end(alloc, sip, &mut dialogue) {
            Ok(()) => push_item(alloc, &mut abandoned.invite.forks, dialogue),
            Err(error) => {
                drop(dialogue);
                Err(error)
            }
        }
    }

    /// What a 2xx of an abandoned INVITE causes, where this is the callee's tag, target and route set.
    fn receive_success(
        &mut self,
        alloc: Global,
        sip: OwnAddress,
        abandoned: &mut AbandonedInvite,
        remote: Remote,
    ) -> Result<(), NoMemory>
        ensures output { OnOk result (self.new ≡ (on_success sip abandoned.old remote self.old).output) }
        ensures remaining { OnOk result (Some abandoned.new ≡ (on_success sip abandoned.old remote self.old).remaining) }
        ensures rows { OnErr result (self.new.rows ≡ self.old.rows) }
    {
        let forks = abandoned.invite.forks.items();
        match ended_dialog(abandoned.in_dialog, remote.tag.bytes(), forks) {
            Some(dialogue) => self.acknowledge_in(alloc, sip, dialogue),
            None => {
                let sent = &abandoned.invite;
                let early = sent.early.as_ref();
                let dialogue = dialogue_of_success(
                    alloc,
                    abandoned.in_dialog,
                    early,
                    sent.early_cseq,
                    &sent.dialogue,
                    remote,
                )?;
                self.end_fork(alloc, sip, abandoned, dialogue)
            }
        }
    }

    /// What a provisional response of an abandoned INVITE causes.
    fn send_due_cancel(
        &mut self,
        alloc: Global,
        sip: OwnAddress,
        abandoned: &mut AbandonedInvite,
    ) -> Result<(), NoMemory>
        requires { abandoned.old.invite.provisional ≡ true }
        ensures output { OnOk result (self.new ≡ (after_due_cancel sip abandoned.old self.old).output) }
        ensures remaining { OnOk result (Some abandoned.new ≡ (after_due_cancel sip abandoned.old self.old).remaining) }
        ensures refused { OnErr result (self.new ≡ self.old) }
    {
        if is_cancellable(&abandoned.invite) {
            self.send_cancel(alloc, sip, &abandoned.invite)?;
            abandoned.invite.cancelled = true;
        }
        Ok(())
    }

    /// What a response below 300 of an abandoned INVITE causes, with this tag, target and route set of the callee.
    fn receive_below_300(
        &mut self,
        alloc: Global,
        sip: OwnAddress,
        key: TKey,
        abandoned: &mut AbandonedInvite,
        received: &ReceivedMessage,
        remote: Remote,
    ) -> Result<(), NoMemory>
        requires remote { remote ≡ remote_of Callee received.now.parsed.lines }
        requires below { status_of received.now.parsed.start < 300 }
        ensures output { OnOk result (self.new ≡ (on_response sip key received.now.parsed abandoned.old self.old).output) }
        ensures remaining { OnOk result (Some abandoned.new ≡ (on_response sip key received.now.parsed abandoned.old self.old).remaining) }
        ensures rows { OnErr result (self.new.rows ≡ self.old.rows) }
    {
        if status_of(received.message.start()) < 200 {
            note_provisional(key, received, remote, abandoned);
            return self.send_due_cancel(alloc, sip, abandoned);
        }
        abandoned.invite.key = Some(key);
        self.receive_success(alloc, sip, abandoned, remote)
    }

    /// The same for any response; whether the INVITE stays.
    fn receive_in(
        &mut self,
        alloc: Global,
        sip: OwnAddress,
        key: TKey,
        abandoned: &mut AbandonedInvite,
        received: &ReceivedMessage,
    ) -> Result<bool, NoMemory>
        ensures output { OnOk result (self.new ≡ (on_response sip key received.now.parsed abandoned.old self.old).output) }
        ensures remaining { IfOk result (λ stays. (if stays then Some abandoned.new else None) ≡ (on_response sip key received.now.parsed abandoned.old self.old).remaining) }
        ensures rows { OnErr result (self.new.rows ≡ self.old.rows) }
    {
        if status_of(received.message.start()) >= 300 {
            self.acknowledge_final(alloc, sip, key, &abandoned.invite, received)?;
            return Ok(false);
        }
        let remote = Remote::read(alloc, &received.message, Side::Callee)?;
        self.receive_below_300(alloc, sip, key, abandoned, received, remote)?;
        Ok(true)
    }

    /// Receives a response of an abandoned INVITE, by its client transaction: after a provisional one the CANCEL that was due is sent (RFC 3261 §9.1); a 2xx gets its ACK, and
    /// its dialog the BYE where it had none (§13.2.2.4, §15.1.1); a final from 300 gets its ACK and ends the INVITE (§17.1.1.3). Returns what remains of the INVITE.
    ///
    /// # Errors
    ///
    /// Out of memory only; the rows are then as before, tokens may be drawn, the ACK of a 2xx may be emitted, and the INVITE is dropped.
    pub fn receive_abandoned(
        &mut self,
        alloc: Global,
        sip: OwnAddress,
        key: TKey,
        abandoned: AbandonedInvite,
        received: &ReceivedMessage,
    ) -> Result<Option<AbandonedInvite>, NoMemory>
        ensures output { OnOk result (self.new ≡ (on_response sip key received.now.parsed abandoned self.old).output) }
        ensures remaining { IfOk result (λ remaining. remaining ≡ (on_response sip key received.now.parsed abandoned self.old).remaining) }
        ensures rows { OnErr result (self.new.rows ≡ self.old.rows) }
    {
        let mut abandoned = abandoned;
        match self.receive_in(alloc, sip, key, &mut abandoned, received) {
            Ok(stays) => Ok(kept_if(stays, abandoned)),
            Err(error) => {
                drop(abandoned);
                Err(error)
            }
        }
    }
}
