//! What is kept of a call. Everything private has fields of its own: the header fields, the History-Info and the redirect of a received message, the identities of the caller, the
//! list of the diversions, and remote and target of a dialog. Everything else is public.

use mmtel_base::{List, Text};
use mmtel_call_services::{Diversions, Opening, Service};
use mmtel_charging::Meter;
use mmtel_compose::ReceivedMessage;
use mmtel_leg::{Asked, CalleeLeg, CallerLeg, Early, Released, Standing};
use mmtel_output::{AbandonedInvite, SentInvite};
use mmtel_reliable::Acks;
use mmtel_transaction::TKey;
use mmtel_types::{Cause, Moment, Side};
use mmtel_waiting::HoldState;
use std::marker::Model;

/// An attempt: the call is offered to a target.
#[derive(Drop)]
pub struct Attempt {
    /// Its number in the call, from 1.
    pub number: u64,
    /// The account that is served there; None if none is.
    pub service: Option<Service>,
    /// Whether a 180 to 183 was relayed.
    pub rang: bool,
    /// Its INVITE.
    pub invite: SentInvite,
}

/// The leg of an attempt that has no final response. It must be spent.
pub enum AttemptLegState {
    /// No response established an early dialog.
    Asked(CalleeLeg<Asked>),
    /// A response established one (RFC 3261 §12.1).
    Early(CalleeLeg<Early>),
}

/// The same, in the form that contracts use. It must be spent.
pub struct AttemptLeg {
    /// The leg.
    pub leg: AttemptLegState,
}

impl Model for AttemptLeg {
    ghost use Rattle.mmtel_call.specs.AttemptLeg.{AttemptLegView, attempt_leg_view};

    ghost Value = { AttemptLegView };

    ghost view = { λ t. attempt_leg_view t.leg };
}

/// A call that is offered to a target and not answered. It must be spent.
pub struct OfferedAttempt {
    /// The caller's leg, which is confirmed from the opening on.
    pub caller: CallerLeg<Standing>,
    /// The target's leg.
    pub callee: AttemptLeg,
    /// The attempt.
    pub attempt: Attempt,
}

/// Both sides of a call that was answered. It must be spent.
pub struct EstablishedLegs {
    /// The caller's leg.
    pub caller: CallerLeg<Standing>,
    /// The leg of the target that answered.
    pub callee: CalleeLeg<Standing>,
    /// The account that is served there; None if none is.
    pub service: Option<Service>,
}

/// A 2xx that was relayed to a side and has no ACK.
#[derive(Drop)]
pub struct Success {
    /// Its number in the call, from 1.
    pub number: u64,
    /// The CSeq number of the INVITE to which it is the response.
    pub cseq: Option<u32>,
    /// The branch, without its cookie, of the INVITE to the other side whose 2xx it relays.
    pub branch: Text,
}

/// An INVITE of a side that was relayed to the other one, and has no final response.
#[derive(Drop)]
pub struct Reinvite {
    /// Its server transaction.
    pub key: TKey,
    /// The INVITE as it was received.
    pub request: ReceivedMessage,
    /// The INVITE to the other side.
    pub invite: SentInvite,
    /// Whether it was cancelled, and its CANCEL waits for a provisional response (RFC 3261 §9.1).
    pub cancel_due: bool,
}

/// Requests of a side that a call relays beside INVITEs.
#[derive(Clone, Copy, Debug, PartialEq, Eq)]
pub enum RelayedKind {
    /// A PRACK of the caller (RFC 3262).
    Prack,
    /// An UPDATE (RFC 3311).
    Update,
}

/// A request of a side that is in flight: it was relayed to the other one, and has no final response.
#[derive(Drop)]
pub struct RelayedTransaction {
    /// Its kind.
    pub kind: RelayedKind,
    /// The side that sent it.
    pub side: Side,
    /// The request, and the form in which it was relayed.
    pub exchange: Reinvite,
}

/// The state of an answered call.
#[derive(Drop)]
pub enum Stage {
    /// A 2xx was relayed to this side, and its ACK is due.
    Answered(Side, Success),
    /// The same, and the other side has left.
    Departing(Side, Success),
    /// No request is pending.
    Stable,
    /// An INVITE of this side was relayed to the other one.
    Reinviting(Side, Reinvite),
}

/// A stable call of which one leg is detached. It must be spent.
pub struct DetachedLeg {
    /// The remaining leg.
    pub remaining: Released,
    /// The meter of the detached leg.
    pub meter: Option<Meter>,
    /// The account that is served as the target; None if none is.
    pub service: Option<Service>,
}

/// The phase of a call. It must be spent.
pub enum Phase {
    /// It is offered, and rings or not.
    Offered(OfferedAttempt),
    /// It was answered.
    Established(EstablishedLegs, Stage),
    /// A leg of it is detached.
    Detached(DetachedLeg),
    /// It is over, with this cause; no leg is left.
    Over(Cause),
}

/// An INVITE that had a 2xx, as long as that 2xx may be retransmitted.
#[derive(Drop)]
pub struct AnsweredInvite {
    /// The INVITE.
    pub invite: SentInvite,
    /// The tag of the dialog that its 2xx established.
    pub tag: Text,
    /// Whether it was sent within a confirmed dialog.
    pub in_dialog: bool,
}

/// A call. It must be spent.
pub struct Call {
    /// What is known of it since its opening; it does not change.
    pub opening: Opening,
    /// How it was diverted.
    pub diversions: Diversions,
    /// Which sides have put the call on hold.
    pub hold: HoldState,
    /// When it was answered.
    pub answered: Option<Moment>,
    /// How many attempts it made.
    pub attempts: u64,
    /// How many 2xx it relayed to a side.
    pub successes: u64,
    /// The reliable responses that were relayed to the caller.
    pub acks: Acks,
    /// The requests that are in flight, in the order in which they were relayed.
    pub relayed: List<RelayedTransaction>,
    /// The meters of past parts, in the order begun; the others run in the legs.
    pub past: List<Meter>,
    /// The INVITEs that were abandoned before they had a final response.
    pub abandoned: List<AbandonedInvite>,
    /// The INVITEs that had a 2xx.
    pub answered_invites: List<AnsweredInvite>,
    /// Its phase.
    pub phase: Phase,
}
