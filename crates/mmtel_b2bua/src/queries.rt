//! Queries on the calls: to which dialog a request belongs, of which call an INVITE opened a server transaction, and the peer and the account of a side.
ghost use Rattle.std.specs.Prelude.{◌≡◌, Some, position};
ghost use Rattle.std.specs.Option.{option_map};
ghost use Rattle.mmtel_b2bua.specs.Queries.{first_side, has_side, is_key, party, party_in_offered, party_in_remaining};
ghost use Rattle.mmtel_b2bua.specs.Queries.{party_of, side_in_established, side_in_offered, side_in_remaining};
ghost use Rattle.mmtel_b2bua.specs.Queries.{call_and_side, inviting_side, party_in_established, side_by_dialog, side_by_invite_key};

use crate::busy::account_of;
use crate::call_table::CallTable;
use crate::entries::{Entry, InviteKey};
use mmtel_call::{AttemptLegState, EstablishedLegs, OfferedAttempt, Phase};
use mmtel_leg::{DialogName, Released};
use mmtel_output::Mark;
use mmtel_transaction::{TKey, hash_of};
use mmtel_types::{Account, CallNo, Peer, Side};

/// The side of an offered call whose dialog has this name.
fn side_in_offered(name: DialogName<'_>, attempt: &OfferedAttempt) -> Option<Side>
    ensures { result ≡ side_in_offered name.entry.call_id.now name.entry.local.now name.entry.remote.now attempt.now }
{
    if name.is_of(attempt.caller.dialogue()) {
        return Some(Side::Caller);
    }
    match &attempt.callee.leg {
        AttemptLegState::Asked(_) => None,
        AttemptLegState::Early(leg) => {
            if name.is_of(leg.dialogue()) {
                Some(Side::Callee)
            } else {
                None
            }
        }
    }
}

/// The same for an answered call.
fn side_in_established(name: DialogName<'_>, legs: &EstablishedLegs) -> Option<Side>
    ensures { result ≡ side_in_established name.entry.call_id.now name.entry.local.now name.entry.remote.now legs.now }
{
    if name.is_of(legs.caller.dialogue()) {
        return Some(Side::Caller);
    }
    if name.is_of(legs.callee.dialogue()) {
        return Some(Side::Callee);
    }
    None
}

/// The same for the remaining leg, where the other one is detached.
fn side_in_remaining(name: DialogName<'_>, remaining: &Released) -> Option<Side>
    ensures { result ≡ side_in_remaining name.entry.call_id.now name.entry.local.now name.entry.remote.now remaining.now }
{
    match remaining {
        Released::Caller(leg) => {
            if name.is_of(leg.dialogue()) {
                Some(Side::Caller)
            } else {
                None
            }
        }
        Released::Callee(leg) => {
            if name.is_of(leg.dialogue()) {
                Some(Side::Callee)
            } else {
                None
            }
        }
    }
}

/// The side of a call whose dialog has this name.
#[tactic(auto, unfolding(crate::specs::Queries::side_by_dialog))]
fn side_by_dialog(name: DialogName<'_>, entry: &Entry) -> Option<Side>
    ensures { result ≡ side_by_dialog name.entry.call_id.now name.entry.local.now name.entry.remote.now entry.now }
{
    match &entry.call.phase {
        Phase::Offered(x) => side_in_offered(name, x),
        Phase::Established(x, _) => side_in_established(name, x),
        Phase::Detached(detached) => side_in_remaining(name, &detached.remaining),
        Phase::Over(_) => None,
    }
}

/// The index of the block of the call whose dialog has this name.
fn box_by_dialog(entries: &[Box<Entry>], name: DialogName<'_>) -> Option<usize>
    ensures { result ≡ position (λ b. has_side (side_by_dialog name.entry.call_id.now name.entry.local.now name.entry.remote.now) b.value) entries.now }
{
    entries
        .iter()
        .position(|entry| side_by_dialog(name, entry).is_some())
}

/// The index of the call whose dialog has this name.
fn place_by_dialog(table: &CallTable, name: DialogName<'_>) -> Option<usize>
    ensures { result ≡ position (has_side (side_by_dialog name.entry.call_id.now name.entry.local.now name.entry.remote.now)) table.now.entries }
{
    let start = table.first_place_for(Mark::LocalTag(hash_of(name.local)));
    let place = box_by_dialog(table.entries_from(start), name);
    table.absolute_place(start, place)
}

/// The call and the side whose dialog has this name.
pub fn find(table: &CallTable, name: DialogName<'_>) -> Option<(CallNo, Side)>
    ensures { result ≡ first_side (side_by_dialog name.entry.call_id.now name.entry.local.now name.entry.remote.now) table.now.entries }
{
    match place_by_dialog(table, name) {
        None => None,
        Some(at) => match table.get(at) {
            None => None,
            Some(entry) => entry.call_and_side(side_by_dialog(name, entry)),
        },
    }
}

/// The index of the INVITE of this server transaction.
fn place_of_invite(invites: &[InviteKey], key: TKey) -> Option<usize>
    ensures { result ≡ position (is_key key) invites.now }
{
    invites.iter().position(|invite| invite.is_of(key))
}

/// The side that sent the INVITE of this server transaction.
fn inviting_side(invites: &[InviteKey], key: TKey) -> Option<Side>
    ensures { result ≡ inviting_side key invites.now }
{
    match place_of_invite(invites, key) {
        None => None,
        Some(at) => match invites.get(at) {
            None => None,
            Some(invite) => Some(invite.side),
        },
    }
}

impl Entry {
    /// The call and its side, if there is one.
    fn call_and_side(&self, side: Option<Side>) -> Option<(CallNo, Side)>
        ensures { result ≡ option_map (call_and_side self.now) side }
    {
        match side {
            None => None,
            Some(side) => Some((self.call.opening.number, side)),
        }
    }

    /// The same for a live call.
    #[tactic(auto, unfolding(crate::specs::Queries::side_by_invite_key))]
    fn side_by_invite_key(&self, key: TKey) -> Option<Side>
        ensures { result ≡ side_by_invite_key key self.now }
    {
        if self.is_live() {
            return inviting_side(self.invites.items(), key);
        }
        None
    }

    /// The peer of a side's leg, and the account that is served there.
    fn party(&self, side: Side) -> Option<(Peer, Option<Account>)>
        ensures { result ≡ party_of side (Some self.now) }
    {
        let origin = self.call.opening.served.origin;
        match &self.call.phase {
            Phase::Offered(x) => Some(party_in_offered(origin, side, x)),
            Phase::Established(x, _) => Some(party_in_established(origin, side, x)),
            Phase::Detached(detached) => {
                party_in_remaining(
                    origin,
                    account_of(detached.service.as_ref()),
                    side,
                    &detached.remaining,
                )
            }
            Phase::Over(_) => None,
        }
    }
}

/// The same for a side of an offered call.
fn party_in_offered(
    origin: Option<Account>,
    side: Side,
    attempt: &OfferedAttempt,
) -> (Peer, Option<Account>)
    ensures { result ≡ party_in_offered origin side attempt.now }
{
    match side {
        Side::Caller => (attempt.caller.peer(), origin),
        Side::Callee => {
            let account = account_of(attempt.attempt.service.as_ref());
            match &attempt.callee.leg {
                AttemptLegState::Asked(leg) => (leg.peer(), account),
                AttemptLegState::Early(leg) => (leg.peer(), account),
            }
        }
    }
}

/// The same for a side of an answered call.
fn party_in_established(
    origin: Option<Account>,
    side: Side,
    legs: &EstablishedLegs,
) -> (Peer, Option<Account>)
    ensures { result ≡ party_in_established origin side legs.now }
{
    match side {
        Side::Caller => (legs.caller.peer(), origin),
        Side::Callee => (legs.callee.peer(), account_of(legs.service.as_ref())),
    }
}

/// The same for a side of a call of which one leg is detached.
fn party_in_remaining(
    origin: Option<Account>,
    served: Option<Account>,
    side: Side,
    remaining: &Released,
) -> Option<(Peer, Option<Account>)>
    ensures { result ≡ party_in_remaining origin served side remaining.now }
{
    match side {
        Side::Caller => match remaining {
            Released::Caller(leg) => Some((leg.peer(), origin)),
            Released::Callee(_) => None,
        },
        Side::Callee => match remaining {
            Released::Caller(_) => None,
            Released::Callee(leg) => Some((leg.peer(), served)),
        },
    }
}

/// The index of the block of the live call whose INVITE opened this server transaction.
fn box_by_invite_key(entries: &[Box<Entry>], key: TKey) -> Option<usize>
    ensures { result ≡ position (λ b. has_side (side_by_invite_key key) b.value) entries.now }
{
    entries
        .iter()
        .position(|entry| entry.side_by_invite_key(key).is_some())
}

/// The index of the live call whose INVITE opened this server transaction.
fn place_by_invite_key(table: &CallTable, key: TKey) -> Option<usize>
    ensures { result ≡ position (has_side (side_by_invite_key key)) table.now.entries }
{
    let start = table.first_place_for(Mark::ServerTransaction(key.0));
    let place = box_by_invite_key(table.entries_from(start), key);
    table.absolute_place(start, place)
}

/// The call and the side whose INVITE opened this server transaction.
pub fn asked_by(table: &CallTable, key: TKey) -> Option<(CallNo, Side)>
    ensures { result ≡ first_side (side_by_invite_key key) table.now.entries }
{
    match place_by_invite_key(table, key) {
        None => None,
        Some(at) => match table.get(at) {
            None => None,
            Some(entry) => entry.call_and_side(entry.side_by_invite_key(key)),
        },
    }
}

/// The peer of a side of the call of this number, and the account that is served there.
pub fn party(table: &CallTable, number: CallNo, side: Side) -> Option<(Peer, Option<Account>)>
    ensures { result ≡ party number.0 side table.now.entries }
{
    match table.place_of(number) {
        None => None,
        Some(at) => match table.get(at) {
            None => None,
            Some(entry) => entry.party(side),
        },
    }
}
