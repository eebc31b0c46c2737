//! The keys by which a call is found: the branches of its requests to which a response may still be received, the transactions of its INVITEs, and the server's tags of its
//! dialogs.
ghost use Rattle.std.specs.Prelude.{◌≡◌, ◌∷◌, [], flat_map};
ghost use Rattle.std.specs.Option.{option_copied};
ghost use Rattle.mmtel_call.specs.Table.{current_invite};
ghost use Rattle.mmtel_output.specs.Marks.{MarkUpdate};
ghost use Rattle.mmtel_b2bua.specs.Entries.{is_live};
ghost use Rattle.mmtel_b2bua.specs.Marks.{abandoned_marks, answered_marks, client_key_marks, dialog_mark, dialog_marks};
ghost use Rattle.mmtel_b2bua.specs.Marks.{invite_marks, live_invite_marks, marks_of, relayed_marks, sent_invite_marks};
ghost use Rattle.mmtel_b2bua.specs.Marks.{waiting_marks};

use crate::entries::{Entry, InviteKey};
use mmtel_call::{AnsweredInvite, AttemptLeg, AttemptLegState, Phase, RelayedTransaction, Stage};
use mmtel_leg::Dialogue;
use mmtel_output::{AbandonedInvite, Index, Mark, SentInvite};
use mmtel_transaction::{TKey, hash_of};
use mmtel_types::CallNo;

/// From now on the call of this number is found, or not found any more, by the client transaction of an INVITE, if that is known.
fn put_client_key(index: &mut Index, key: Option<TKey>, call: CallNo, stays: bool)
    ensures { MarkUpdate stays call.0 (client_key_marks key) index.old index.new }
{
    match key {
        None => {}
        Some(key) => index.put(Mark::ClientTransaction(key.0), call.0, stays),
    }
}

/// The same for an INVITE that was abandoned, or had a 2xx.
fn put_sent_invite(index: &mut Index, sent_invite: &SentInvite, call: CallNo, stays: bool)
    ensures { MarkUpdate stays call.0 (sent_invite_marks sent_invite.now) index.old index.new }
{
    index.put(
        Mark::Branch(hash_of(sent_invite.branch.bytes())),
        call.0,
        stays,
    );
    put_client_key(index, sent_invite.key, call, stays);
}

/// The same for those that were abandoned.
fn put_abandoned(index: &mut Index, abandoned: &[AbandonedInvite], call: CallNo, stays: bool)
    ensures { MarkUpdate stays call.0 (flat_map abandoned_marks abandoned.now) index.old index.new }
{
    for invite in abandoned {
        put_sent_invite(index, &invite.invite, call, stays);
    }
}

/// The same for those that had a 2xx.
fn put_answered(index: &mut Index, answered: &[AnsweredInvite], call: CallNo, stays: bool)
    ensures { MarkUpdate stays call.0 (flat_map answered_marks answered.now) index.old index.new }
{
    for invite in answered {
        put_sent_invite(index, &invite.invite, call, stays);
    }
}

/// The same for a request that is in flight.
fn put_relayed(index: &mut Index, relayed: &RelayedTransaction, call: CallNo, stays: bool)
    ensures { MarkUpdate stays call.0 (relayed_marks relayed.now) index.old index.new }
{
    let branch = &relayed.exchange.invite.branch;
    index.put(Mark::Branch(hash_of(branch.bytes())), call.0, stays);
}

/// The same for all that are in flight.
fn put_in_flight(index: &mut Index, in_flight: &[RelayedTransaction], call: CallNo, stays: bool)
    ensures { MarkUpdate stays call.0 (flat_map relayed_marks in_flight.now) index.old index.new }
{
    for relayed in in_flight {
        put_relayed(index, relayed, call, stays);
    }
}

/// The same for the INVITEs that its sides sent.
fn put_invites(index: &mut Index, invites: &[InviteKey], call: CallNo, stays: bool)
    ensures { MarkUpdate stays call.0 (flat_map invite_marks invites.now) index.old index.new }
{
    for invite in invites {
        index.put(Mark::ServerTransaction(invite.key.0), call.0, stays);
    }
}

/// The same for those of a live call.
fn put_live_invites(index: &mut Index, entry: &Entry, call: CallNo, stays: bool)
    ensures { MarkUpdate stays call.0 (live_invite_marks (is_live entry.now) entry.now.invites) index.old index.new }
{
    if !entry.is_live() {
        return;
    }
    put_invites(index, entry.invites.items(), call, stays);
}

/// The same for the INVITE for which the call waits.
fn put_waiting(index: &mut Index, phase: &Phase, call: CallNo, stays: bool)
    ensures { MarkUpdate stays call.0 (waiting_marks (current_invite phase.now)) index.old index.new }
{
    match waits_on(phase) {
        None => {}
        Some(sent_invite) => {
            index.put(
                Mark::Branch(hash_of(sent_invite.branch.bytes())),
                call.0,
                stays,
            )
        }
    }
}

/// The same for a dialog.
fn put_dialog(index: &mut Index, dialogue: &Dialogue, call: CallNo, stays: bool)
    ensures { MarkUpdate stays call.0 (dialog_mark dialogue.now ∷ []) index.old index.new }
{
    index.put(
        Mark::LocalTag(hash_of(dialogue.local_tag.bytes())),
        call.0,
        stays,
    );
}

/// The same for two dialogs.
fn put_both_dialogs(
    index: &mut Index,
    caller: &Dialogue,
    callee: &Dialogue,
    call: CallNo,
    stays: bool,
)
    ensures { MarkUpdate stays call.0 (dialog_mark caller.now ∷ dialog_mark callee.now ∷ []) index.old index.new }
{
    put_dialog(index, caller, call, stays);
    put_dialog(index, callee, call, stays);
}

/// The same for the dialogs of a call.
fn put_dialogs(index: &mut Index, phase: &Phase, call: CallNo, stays: bool)
    ensures { MarkUpdate stays call.0 (dialog_marks phase.now) index.old index.new }
{
    match phase {
        Phase::Offered(x) => {
            put_both_dialogs(
                index,
                x.caller.dialogue(),
                dialogue_of(&x.callee),
                call,
                stays,
            )
        }
        Phase::Established(x, _) => {
            put_both_dialogs(index, x.caller.dialogue(), x.callee.dialogue(), call, stays)
        }
        Phase::Detached(detached) => put_dialog(index, detached.remaining.dialogue(), call, stays),
        Phase::Over(_) => {}
    }
}

/// From now on this call, of this number, is found by its marks, or not found any more.
pub fn put_call(index: &mut Index, entry: &Entry, call: CallNo, stays: bool)
    ensures { MarkUpdate stays call.0 (marks_of entry.now) index.old index.new }
{
    put_waiting(index, &entry.call.phase, call, stays);
    put_abandoned(index, entry.call.abandoned.items(), call, stays);
    put_answered(index, entry.call.answered_invites.items(), call, stays);
    put_in_flight(index, entry.call.relayed.items(), call, stays);
    put_live_invites(index, entry, call, stays);
    put_dialogs(index, &entry.call.phase, call, stays);
}

/// The INVITE for which a call waits.
fn waits_on(phase: &Phase) -> Option<&SentInvite>
    ensures { option_copied result ≡ current_invite phase.now }
{
    match phase {
        Phase::Offered(x) => Some(&x.attempt.invite),
        Phase::Established(_, stage) => match stage {
            Stage::Answered(_, _) => None,
            Stage::Departing(_, _) => None,
            Stage::Stable => None,
            Stage::Reinviting(_, reinvite) => Some(&reinvite.invite),
        },
        Phase::Detached(_) => None,
        Phase::Over(_) => None,
    }
}

/// The dialog of a target.
fn dialogue_of(leg: &AttemptLeg) -> &Dialogue
    ensures { result.now ≡ leg.now.leg.dialogue }
{
    match &leg.leg {
        AttemptLegState::Asked(leg) => leg.dialogue(),
        AttemptLegState::Early(leg) => leg.dialogue(),
    }
}
