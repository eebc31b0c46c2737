//! Removing items from shelves, and inserting others.
ghost use Rattle.std.specs.Prelude.{◌≡◌, IfOk, OnErr, slice_get};
ghost use Rattle.mmtel_timers.specs.Shelves.{lookup_result, Ascends, Has};
ghost use Rattle.mmtel_transaction.specs.Indexes.{ack_match, call_match, client_match, is_same_match, searched_key, Moves};
ghost use Rattle.mmtel_transaction.specs.Indexes.{match_cmp, Puts, server_match, Removes, merged_match, deadline_cmp};

use crate::entries::Entry;
use crate::heads::Head;
use crate::match_keys::{DeadlineKey, MatchKey, MatchKeyRef, key_if};
use mmtel_base::NoMemory;
use mmtel_timers::{PartedShelf, Shelf, Steps};
use std::sync::ledger::Ledger;

/// Changes the deadline key of a transaction. It allocates nothing.
pub fn rearm<L: Ledger>(
    due: &mut Shelf<DeadlineKey>,
    old: &DeadlineKey,
    new: DeadlineKey,
    steps: &mut Steps<L>,
)
    requires ascends { Ascends deadline_cmp due.old }
    requires there { Has old.now due.old }
    ensures moved { Moves deadline_cmp old.now new due.old due.new }
{
    let from = due.seek(old, steps).position;
    let _ = due.exchange(from, &new, new, steps);
}

/// Removes the deadline key of a transaction.
pub fn remove_deadline<L: Ledger>(
    due: &mut Shelf<DeadlineKey>,
    old: &DeadlineKey,
    steps: &mut Steps<L>,
)
    requires ascends { Ascends deadline_cmp due.old }
    requires there { Has old.now due.old }
    ensures removed { Removes old.now due.old due.new }
{
    let from = due.seek(old, steps).position;
    let _ = due.remove(from);
}

/// Removes a match key.
pub fn remove_match<L: Ledger>(
    names: &mut PartedShelf<MatchKey>,
    old: &MatchKeyRef<'_>,
    steps: &mut Steps<L>,
)
    requires ascends { Ascends match_cmp names.old }
    requires there { Has (searched_key old.now) names.old }
    ensures removed { Removes (searched_key old.now) names.old names.new }
{
    let from = names.seek(old, steps);
    let _ = names.remove(from);
}

/// The match key of a server transaction.
pub fn server_search_key(entry: &Entry) -> MatchKeyRef<'_>
    ensures { searched_key result ≡ server_match entry.now }
{
    MatchKeyRef::of(
        entry.head.branch.bytes(),
        entry.head.sent_by.bytes(),
        entry.head.method.bytes(),
        0,
        entry.key,
    )
}

/// The match key of a client transaction.
pub fn client_search_key(entry: &Entry) -> MatchKeyRef<'_>
    ensures { searched_key result ≡ client_match entry.now }
{
    MatchKeyRef::of(
        entry.head.branch.bytes(),
        b"",
        entry.head.method.bytes(),
        0,
        entry.key,
    )
}

/// The match key with call and CSeq of the request of a server transaction.
pub fn call_search_key(entry: &Entry) -> MatchKeyRef<'_>
    ensures { searched_key result ≡ call_match entry.now }
{
    MatchKeyRef::of(
        entry.head.call_id.bytes(),
        entry.head.from_tag.bytes(),
        entry.head.method.bytes(),
        entry.head.number,
        entry.key,
    )
}

/// The search key that precedes the match keys of all server transactions with the call and CSeq of this one.
pub fn merged_search_key(entry: &Entry) -> MatchKeyRef<'_>
    ensures { searched_key result ≡ merged_match entry.now }
{
    MatchKeyRef::of(
        entry.head.call_id.bytes(),
        entry.head.from_tag.bytes(),
        entry.head.method.bytes(),
        entry.head.number,
        0,
    )
}

/// The search key that precedes the match keys of all INVITEs whose 2xx this ACK may acknowledge.
pub fn ack_search_key(head: &Head) -> MatchKeyRef<'_>
    ensures { searched_key result ≡ ack_match head.now }
{
    MatchKeyRef::of(
        head.call_id.bytes(),
        head.from_tag.bytes(),
        b"INVITE",
        head.number,
        0,
    )
}

/// The transaction number of the match key at a position, if it has the same parts as the one that is sought.
pub fn key_at<L: Ledger>(
    names: &PartedShelf<MatchKey>,
    place: usize,
    mark: &MatchKeyRef<'_>,
    steps: &mut Steps<L>,
) -> Option<u64>
    ensures { result ≡ lookup_result (is_same_match (searched_key mark.now)) (λ x. x.key) (slice_get names.now place) }
{
    key_if(names.look(place, steps), mark)
}

/// Inserts the deadline key of a transaction.
///
/// # Errors
///
/// Out of memory only; the shelf is then as before.
pub fn insert_deadline<L: Ledger>(
    due: &mut Shelf<DeadlineKey>,
    new: DeadlineKey,
    steps: &mut Steps<L>,
) -> Result<usize, NoMemory>
    requires ascends { Ascends deadline_cmp due.old }
    ensures ok { IfOk result (λ to. Puts deadline_cmp new to due.old due.new) }
    ensures err { OnErr result (due.new ≡ due.old) }
{
    let to = due.seek(&new, steps).position;
    match due.insert(to, new) {
        Ok(()) => Ok(to),
        Err((_, fault)) => Err(fault),
    }
}

/// Inserts a match key of a transaction.
///
/// # Errors
///
/// Out of memory only; the shelf is then as before.
pub fn insert_match<L: Ledger>(
    names: &mut PartedShelf<MatchKey>,
    new: MatchKey,
    steps: &mut Steps<L>,
) -> Result<usize, NoMemory>
    requires ascends { Ascends match_cmp names.old }
    ensures ok { IfOk result (λ to. Puts match_cmp new to names.old names.new) }
    ensures err { OnErr result (names.new ≡ names.old) }
{
    let to = names.seek(&new.search_key(), steps);
    match names.insert(to, new) {
        Ok(()) => Ok(to),
        Err((_, fault)) => Err(fault),
    }
}
