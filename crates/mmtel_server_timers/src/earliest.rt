//! Which of the timers of calls, participants and subscriptions comes first.
ghost use Rattle.std.specs.Prelude.{◌≡◌};
ghost use Rattle.mmtel_server_timers.specs.Queue.{due_by, earlier_of, earliest_timer, timer_at};

use crate::pending_timers::PendingTimer;
use crate::ranks::Ranks;
use mmtel_timers::Key;
use std::collections::BTreeMap;

/// A timer that is armed, with the number of its arming.
type NumberedTimer = (u64, PendingTimer);

/// The second where that is sooner, and else the first.
fn earlier_of(one: Option<NumberedTimer>, other: Option<NumberedTimer>) -> Option<NumberedTimer>
    ensures { result ≡ earlier_of one other }
{
    match (one, other) {
        (None, other) => other,
        (Some(one), None) => Some(one),
        (Some(one), Some(other)) => {
            if other.1.is_sooner(&one.1) {
                Some(other)
            } else {
                Some(one)
            }
        }
    }
}

/// The timer with this deadline.
fn timer_at(
    pending: &BTreeMap<u64, PendingTimer>,
    deadline: Option<(u64, Key)>,
) -> Option<NumberedTimer>
    ensures { result ≡ timer_at deadline pending.now.entries }
{
    match deadline {
        None => None,
        Some((_, key)) => match pending.get(&key.0) {
            Some(one) => Some((key.0, *one)),
            None => None,
        },
    }
}

/// The first of all, due or not.
pub fn earliest_timer(ranks: &Ranks, pending: &BTreeMap<u64, PendingTimer>) -> Option<NumberedTimer>
    ensures { result ≡ earliest_timer ranks.now pending.now.entries }
{
    let no_reply = timer_at(pending, ranks.no_replies.first());
    let no_prack = timer_at(pending, ranks.no_pracks.first());
    let cap = timer_at(pending, ranks.caps.first());
    let no_ack = timer_at(pending, ranks.no_acks.first());
    let expiry = timer_at(pending, ranks.expiries.first());
    let ringing = earlier_of(earlier_of(no_reply, no_prack), cap);
    earlier_of(earlier_of(ringing, no_ack), expiry)
}

/// This timer, where it is due by a moment.
pub fn due_by(first: Option<NumberedTimer>, now: u64) -> Option<NumberedTimer>
    ensures { result ≡ due_by now first }
{
    match first {
        Some(first) if first.1.at <= now => Some(first),
        _ => None,
    }
}
