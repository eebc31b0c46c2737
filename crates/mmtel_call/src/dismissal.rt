//! Which signals end the attempt of an offered call without a 2xx, or end a call that was answered: in such a step each request that is in flight first gets its final response
//! (RFC 3262 §3, RFC 3311 §5.2).
ghost use Rattle.std.specs.Prelude.{◌≡◌, IfOk};
ghost use Rattle.std.specs.Option.{option_copied};
ghost use Rattle.mmtel_call.specs.Dismissal.{ends_by_bye, is_bye_in, is_in_order, leaves_by_bye, leaves_by_bye_at, leaves_on_ack};
ghost use Rattle.mmtel_call.specs.Dismissal.{leaves_on_ack_at, leaves_on_cancel, leaves_on_due, leaves_on_request};
ghost use Rattle.mmtel_call.specs.Dismissal.{leaves_on_status, leaves_on_status_at, leaves_on_timeout, leaves_on_timeout_at, leaves_on_timer};
ghost use Rattle.mmtel_call.specs.Table.{leaves, leaves_on_response, leaves_on_timeout_of};

use crate::answered::acknowledges;
use crate::calls::{Call, EstablishedLegs, OfferedAttempt, Phase, Stage};
use crate::reinvite_ends::ends_dialog;
use crate::signals::Signal;
use mmtel_base::NoMemory;
use mmtel_call_services::is_same_side;
use mmtel_compose::{ReceivedMessage, number_of, status_of};
use mmtel_leg::Dialogue;
use mmtel_message::is_method;
use mmtel_output::{awaited_request_branch, timed_out_branch};
use mmtel_transaction::{DueWord, TKey};
use mmtel_types::Side;
use std::alloc::Global;

/// Whether a request is not older than the last one that was received in its dialog (RFC 3261 §12.2.2).
fn is_in_order(dialogue: &Dialogue, message: &ReceivedMessage) -> bool
    ensures { result ≡ is_in_order dialogue.now message.now }
{
    match number_of(message) {
        None => true,
        Some(number) => match dialogue.remote_cseq {
            None => true,
            Some(last) => number >= last,
        },
    }
}

/// Whether a request is a BYE that is accepted in this dialog.
fn is_bye_in(dialogue: &Dialogue, message: &ReceivedMessage) -> bool
    ensures { result ≡ is_bye_in dialogue.now message.now }
{
    is_method(b"BYE", message.message.start()) && is_in_order(dialogue, message)
}

impl Stage {
    fn leaves_on_status(&self, code: u16) -> bool
        ensures { result ≡ leaves_on_status_at self.now code }
    {
        match self {
            Stage::Reinviting(_, _) => ends_dialog(code),
            Stage::Answered(_, _) | Stage::Departing(_, _) | Stage::Stable => false,
        }
    }

    fn leaves_on_timeout(&self) -> bool
        ensures { result ≡ leaves_on_timeout_at self.now }
    {
        match self {
            Stage::Reinviting(_, _) => true,
            Stage::Answered(_, _) | Stage::Departing(_, _) | Stage::Stable => false,
        }
    }

    /// Whether a BYE of this side ends the call: no side remains to which an ACK, or the BYE, is owed.
    fn ends_by_bye(&self, side: Side) -> bool
        ensures { result ≡ ends_by_bye self.now side }
    {
        match self {
            Stage::Answered(waiting, _) => is_same_side(*waiting, side),
            Stage::Departing(waiting, _) => is_same_side(*waiting, side),
            Stage::Stable | Stage::Reinviting(_, _) => true,
        }
    }

    fn leaves_on_ack(&self, side: Side, message: &ReceivedMessage) -> bool
        ensures { result ≡ leaves_on_ack_at self.now side message.now }
    {
        match self {
            Stage::Departing(waiting, success) => acknowledges(*waiting, success, side, message),
            Stage::Answered(_, _) | Stage::Stable | Stage::Reinviting(_, _) => false,
        }
    }
}

impl OfferedAttempt {
    /// Whether a request of a side is the BYE by which the caller abandons the call.
    fn leaves_by_bye(&self, side: Side, message: &ReceivedMessage) -> bool
        ensures { result ≡ leaves_by_bye self.now side message.now }
    {
        match side {
            Side::Caller => is_bye_in(self.caller.dialogue(), message),
            Side::Callee => false,
        }
    }
}

impl EstablishedLegs {
    /// Whether a request of a side is the BYE that ends the call.
    fn leaves_by_bye(&self, stage: &Stage, side: Side, message: &ReceivedMessage) -> bool
        ensures { result ≡ leaves_by_bye_at stage.now self.now side message.now }
    {
        is_bye_in(self.dialogue_of(side), message) && stage.ends_by_bye(side)
    }
}

impl Phase {
    /// Whether a response with this status, to the INVITE for which the call waits, ends the attempt without a 2xx, or ends the call.
    fn leaves_on_status(&self, code: u16) -> bool
        ensures { result ≡ leaves_on_status code self.now }
    {
        match self {
            Phase::Offered(_) => code >= 300,
            Phase::Established(_, stage) => stage.leaves_on_status(code),
            Phase::Detached(_) | Phase::Over(_) => false,
        }
    }

    /// Whether the timeout of that INVITE does.
    fn leaves_on_timeout(&self) -> bool
        ensures { result ≡ leaves_on_timeout self.now }
    {
        match self {
            Phase::Offered(x) => !x.attempt.rang,
            Phase::Established(_, stage) => stage.leaves_on_timeout(),
            Phase::Detached(_) | Phase::Over(_) => false,
        }
    }

    /// Whether this request of a side does.
    fn leaves_on_request(&self, side: Side, message: &ReceivedMessage) -> bool
        ensures { result ≡ leaves_on_request self.now side message.now }
    {
        match self {
            Phase::Offered(x) => x.leaves_by_bye(side, message),
            Phase::Established(x, stage) => x.leaves_by_bye(stage, side, message),
            Phase::Detached(_) | Phase::Over(_) => false,
        }
    }

    /// Whether this ACK of a side does.
    fn leaves_on_ack(&self, side: Side, message: &ReceivedMessage) -> bool
        ensures { result ≡ leaves_on_ack self.now side message.now }
    {
        match self {
            Phase::Established(_, stage) => stage.leaves_on_ack(side, message),
            Phase::Offered(_) | Phase::Detached(_) | Phase::Over(_) => false,
        }
    }
}

impl Call {
    /// Whether a CANCEL of this INVITE ends the attempt.
    fn leaves_on_cancel(&self, invite: TKey) -> bool
        ensures { result ≡ leaves_on_cancel self.now.phase invite self.now }
    {
        match &self.phase {
            Phase::Offered(_) => invite.0 == self.opening.key.0,
            Phase::Established(_, _) | Phase::Detached(_) | Phase::Over(_) => false,
        }
    }

    /// Whether a deadline ends this attempt.
    fn leaves_on_timer(&self, offered: &OfferedAttempt, what: DueWord) -> bool
        ensures { result ≡ leaves_on_timer offered.now what self.now }
    {
        match what {
            DueWord::NoReply(number) | DueWord::Cap(number) => number == offered.attempt.number,
            DueWord::NoPrack(own) => self.acks.is_waiting(own),
            DueWord::NoAck(_) | DueWord::Expired(_) => false,
        }
    }

    /// Whether a deadline ends the attempt or the call.
    fn leaves_on_due(&self, what: DueWord) -> bool
        ensures { result ≡ leaves_on_due self.now.phase what self.now }
    {
        match &self.phase {
            Phase::Offered(x) => self.leaves_on_timer(x, what),
            Phase::Established(_, stage) => stage.is_due(self.successes, what),
            Phase::Detached(_) | Phase::Over(_) => false,
        }
    }

    /// Whether a response to the request of this branch does.
    fn leaves_on_response(&self, branch: Option<&[u8]>, message: &ReceivedMessage) -> bool
        ensures { result ≡ leaves_on_response (option_copied branch.entry) message.now self.now }
    {
        match branch {
            None => false,
            Some(branch) => {
                self.phase.waits_on(branch)
                    && self
                        .phase
                        .leaves_on_status(status_of(message.message.start()))
            }
        }
    }

    /// Whether the timeout of the request of this branch does.
    fn leaves_on_timeout_of(&self, branch: Option<&[u8]>) -> bool
        ensures { result ≡ leaves_on_timeout_of (option_copied branch.entry) self.now }
    {
        match branch {
            None => false,
            Some(branch) => self.phase.waits_on(branch) && self.phase.leaves_on_timeout(),
        }
    }

    /// Whether a signal ends the attempt of an offered call without a 2xx, or ends a call that was answered.
    ///
    /// # Errors
    ///
    /// Out of memory only.
    pub fn leaves(&self, alloc: Global, signal: &Signal) -> Result<bool, NoMemory>
        ensures { IfOk result (λ yes. yes ≡ leaves signal.now self.now) }
    {
        match signal {
            Signal::Request {
                side,
                key: _,
                request,
            } => Ok(self.phase.leaves_on_request(*side, request)),
            Signal::Ack { side, ack } => Ok(self.phase.leaves_on_ack(*side, ack)),
            Signal::Cancel {
                key: _,
                cancel: _,
                invite,
            } => Ok(self.leaves_on_cancel(*invite)),
            Signal::Answer { key: _, response } => {
                let answered = awaited_request_branch(alloc, response)?;
                let branch = match &answered {
                    None => None,
                    Some(branch) => Some(branch.bytes()),
                };
                let leaves = self.leaves_on_response(branch, response);
                drop(answered);
                Ok(leaves)
            }
            Signal::Silent { branch, method } => {
                let timed_out = timed_out_branch(branch.bytes(), method.bytes());
                Ok(self.leaves_on_timeout_of(timed_out))
            }
            Signal::Due { what } => Ok(self.leaves_on_due(*what)),
            Signal::Ended { key: _ } => Ok(false),
        }
    }
}
