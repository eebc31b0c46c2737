//! The timers of transactions and those of calls, participants and subscriptions: which comes first, and at which moment it fires (RFC 3261 §17).
ghost use Rattle.std.specs.Prelude.{◌≡◌, ◌≤◌, Option};
ghost use Rattle.std.specs.Option.{option_map};
ghost use Rattle.mmtel_run_definitions.specs.Deadlines.{FirstTimer, first_deadline};
ghost use Rattle.mmtel_server_timers.specs.PendingTimers.{first_in, is_before, kind_of, pending_in};
ghost use Rattle.mmtel_transaction.specs.Results.{DueEntryView, upcoming_of};

use crate::pending_timers::PendingTimer;
use mmtel_types::Moment;

/// Which timer comes first of those that are due.
pub enum Deadline {
    /// One of a transaction.
    OfTransaction,
    /// One of a call, of a participant or of a subscription.
    OfServiceTimer,
}

/// Whether a timer of a transaction, of this moment and step, comes before one of a call, participant or subscription: unless its moment is later, or for one moment its step.
fn comes_before(at: u64, step: u64, timer: &PendingTimer) -> bool
    ensures { result ≡ is_before at step (pending_in timer.now) }
{
    at < timer.at || (at == timer.at && step <= timer.step)
}

/// Which comes first: the first timer of the transactions, by its moment and its step, or the first one of calls, participants and subscriptions.
pub fn first_deadline(next: Option<(u64, u64)>, timer: Option<PendingTimer>) -> Option<Deadline>
    ensures { (message : Option DueEntryView) (chosen : Option FirstTimer) → next ≡ upcoming_of message → option_map (λ a. pending_in a) timer ≡ first_in chosen →
        result ≡ option_map kind_of (first_deadline message chosen) }
{
    match (next, timer) {
        (None, None) => None,
        (Some(_), None) => Some(Deadline::OfTransaction),
        (None, Some(_)) => Some(Deadline::OfServiceTimer),
        (Some((at, step)), Some(pending)) => {
            if comes_before(at, step, &pending) {
                Some(Deadline::OfTransaction)
            } else {
                Some(Deadline::OfServiceTimer)
            }
        }
    }
}

/// The moment at which a timer fires that is due by another moment, in milliseconds: its own, not that of the clock.
pub fn moment_by(at: u64, now: Moment) -> Moment
    ensures { at ≤ now → result ≡ at }
{
    match Moment::new(at.min(now.ms())) {
        Some(moment) => moment,
        None => unreachable!(),
    }
}
