//! The timers of calls, of participants of conferences and of subscriptions (RFC 3261 §13.3.1.4, TS 24.604 §4.8, RFC 3515 §2.4.5, RFC 6665 §4.2.2).
ghost use Rattle.std.specs.Prelude.{◌≡◌};
ghost use Rattle.mmtel_run_definitions.specs.Deadlines.{is_sooner, rank};
ghost use Rattle.mmtel_server_timers.specs.PendingTimers.{pending_in, timer_in};

use mmtel_transaction::{DueWord, RoomWord};
use mmtel_types::{CallNo, RoomNo, SubNo};

/// What a timer is for.
#[derive(Clone, Copy)]
pub enum ServiceTimer {
    /// Of a call.
    OfCall {
        /// The call.
        call: CallNo,
        /// Which timer of the call.
        what: DueWord,
    },
    /// Of a participant of a conference.
    OfParticipant {
        /// The conference.
        room: RoomNo,
        /// The number of the participant.
        seat: u64,
        /// Which timer of the participant.
        what: RoomWord,
    },
    /// The expiration of a subscription to a mailbox.
    OfSubscription {
        /// The subscription.
        sub: SubNo,
        /// The number, counted from 1 within the subscription, of the SUBSCRIBE that set it.
        set: u64,
    },
}

/// A timer of a call, of a participant or of a subscription that did not fire.
#[derive(Clone, Copy)]
pub struct PendingTimer {
    /// What it is for.
    pub timer: ServiceTimer,
    /// Its moment, in milliseconds since 1970-01-01T00:00:00Z.
    pub at: u64,
    /// The step in which it was armed.
    pub step: u64,
}

impl PendingTimer {
    /// Whether it fires before another one: by moment, then by the step that armed them, then no reply before a missing PRACK before the longest time before a missing
    /// ACK before the end of a session.
    pub fn is_sooner(&self, other: &PendingTimer) -> bool
        ensures { result ≡ is_sooner (pending_in self.now) (pending_in other.now) }
    {
        self.at < other.at
            || (self.at == other.at
                && (self.step < other.step
                    || (self.step == other.step && rank(self.timer) < rank(other.timer))))
    }
}

/// The order of timers that were armed in one step for one moment.
pub(crate) fn rank(timer: ServiceTimer) -> u64
    ensures { result ≡ rank (timer_in timer) }
{
    match timer {
        ServiceTimer::OfCall { call: _, what } => match what {
            DueWord::NoReply(_) => 0,
            DueWord::NoPrack(_) => 1,
            DueWord::Cap(_) => 2,
            DueWord::NoAck(_) => 3,
            DueWord::Expired(_) => 4,
        },
        ServiceTimer::OfParticipant {
            room: _,
            seat: _,
            what,
        } => match what {
            RoomWord::Cap(_) => 2,
            RoomWord::NoAck(_) => 3,
        },
        ServiceTimer::OfSubscription { sub: _, set: _ } => 0,
    }
}
