//! To which table a message belongs.
ghost use Rattle.std.specs.Prelude.{◌≡◌};
ghost use Rattle.std.specs.Option.{option_copied};
ghost use Rattle.mmtel_run_definitions.specs.Ownership.{is_of_peer, is_of_subscriptions, owner_of_branch, owner_of_key};
ghost use Rattle.mmtel_server_timers.specs.Ownership.{owner_in};

use mmtel_b2bua::Calls;
use mmtel_mwi::Boxes;
use mmtel_transaction::TKey;
use mmtel_types::{Account, Peer};

/// The owner of a request that the server sent: it receives the response, the timeout and the end of the transaction.
#[derive(Clone, Copy)]
pub enum Owner {
    /// The calls.
    Calls,
    /// The subscriptions: it is a NOTIFY of one.
    Subscriptions,
    /// The conferences.
    Conferences,
}

/// Whether a NOTIFY of a subscription with this branch awaits its response.
fn is_of_subscriptions(boxes: &Boxes, branch: Option<&[u8]>) -> bool
    ensures { result ≡ is_of_subscriptions (option_copied branch.entry) boxes.now.table }
{
    match branch {
        None => false,
        Some(branch) => boxes.is_pending(branch),
    }
}

/// The owner of the request that was sent with this branch: the calls where an INVITE of one has it, by the branch of an INVITE; the subscriptions where a NOTIFY of one has it;
/// and else the conferences (RFC 3261 §17.1.3).
pub fn owner_of_branch(
    calls: &Calls,
    boxes: &Boxes,
    invite: Option<&[u8]>,
    branch: Option<&[u8]>,
) -> Owner
    ensures { owner_in result ≡ owner_of_branch (option_copied invite.entry) (option_copied branch.entry) calls.now.table.entries boxes.now.table }
{
    if calls.has_sent(invite) {
        Owner::Calls
    } else if is_of_subscriptions(boxes, branch) {
        Owner::Subscriptions
    } else {
        Owner::Conferences
    }
}

/// The owner of the request that got its response in this client transaction: the calls where that was an INVITE of one, and else the conferences.
pub fn owner_of_key(calls: &Calls, key: TKey) -> Owner
    ensures { owner_in result ≡ owner_of_key key calls.now.table.entries }
{
    if calls.has_received(key) {
        Owner::Calls
    } else {
        Owner::Conferences
    }
}

/// Whether a leg, with this peer and account, is with the peer that asks: a dialog is replaced for no other (RFC 3891 §3).
pub fn is_of_peer(peer: Peer, party: Option<(Peer, Option<Account>)>) -> bool
    ensures { result ≡ is_of_peer peer party }
{
    match party {
        None => false,
        Some((other, _)) => other == peer,
    }
}
