//! The notifications of the diversions of a call that its caller gets. These are theorems, without code.
ghost use Rattle.mmtel_call_theorems.specs.Notifications.Theorems.{EndsWithoutNotification, KeepsItsHistory, NotifiesItsDiversions, NotifiesNothingLater};

use mmtel_precedence::theorems::{
    endings_are_moves, later_endings_extend, moves_give_the_outcome, next_steps_are_moves,
};

/// Whatever a call receives, whatever the state is then, and however it is interleaved with others: the server's own 181s to its caller are one for each diversion that was made
/// according to its Outcome and whose forward notifies the caller, in order, each with the History-Info that the caller may see after that diversion (TS 24.604 §4.5.2.6).
/// Its History-Info is what it came with plus the entries of those diversions (RFC 7044 §7).
pub fn calls_notify_their_diversions()
    ensures reported { NotifiesItsDiversions }
    ensures history { KeepsItsHistory }
    // A call that is not offered any more sends none, whatever it receives, also while a leg of it is detached, and where it ends then (RFC 4579 §5.6).
    ensures nothing_later { NotifiesNothingLater }
    ensures ends { EndsWithoutNotification }
{
    next_steps_are_moves();
    endings_are_moves();
    later_endings_extend();
    moves_give_the_outcome();
}
