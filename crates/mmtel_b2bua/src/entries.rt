//! A call in the table of calls.
ghost use Rattle.std.specs.Prelude.{◌≡◌};
ghost use Rattle.std.specs.Option.{option_copied};
ghost use Rattle.mmtel_b2bua.specs.Entries.{has_received_key, has_sent_branch, is_live, is_numbered};
ghost use Rattle.mmtel_b2bua.specs.Queries.{is_key};

use mmtel_base::List;
use mmtel_call::Call;
use mmtel_transaction::TKey;
use mmtel_types::{CallNo, Side};

/// The server transaction of an INVITE, and the side that sent it.
#[derive(Clone, Copy)]
pub struct InviteKey {
    /// The server transaction.
    pub key: TKey,
    /// The side.
    pub side: Side,
}

impl InviteKey {
    /// Whether it is this server transaction.
    #[tactic(auto, unfolding(crate::specs::Queries::is_key))]
    pub fn is_of(&self, key: TKey) -> bool
        ensures { result ≡ is_key key self.now }
    {
        self.key.0 == key.0
    }
}

/// A call in the table, with the server transactions of the INVITEs of its sides. It must be spent.
pub struct Entry {
    /// The call.
    pub call: Call,
    /// The INVITEs that its sides sent, in order.
    pub invites: List<InviteKey>,
}

impl Entry {
    /// Whether the call is not over.
    #[tactic(auto, unfolding(crate::specs::Entries::is_live))]
    pub fn is_live(&self) -> bool
        ensures { result ≡ is_live self.now }
    {
        !self.call.is_over()
    }

    /// Whether the call has this number.
    #[tactic(auto, unfolding(crate::specs::Entries::is_numbered))]
    pub fn is_numbered(&self, number: CallNo) -> bool
        ensures { result ≡ is_numbered number.0 self.now }
    {
        self.call.opening.number.0 == number.0
    }

    /// Whether a request of the call to which a response may still be received has this branch: an INVITE, or a PRACK or UPDATE that is in flight.
    #[tactic(auto, unfolding(crate::specs::Entries::has_sent_branch))]
    pub fn has_sent_branch(&self, branch: Option<&[u8]>) -> bool
        ensures { result ≡ has_sent_branch (option_copied branch.entry) self.now }
    {
        match branch {
            None => false,
            Some(branch) => self.call.has_sent(branch),
        }
    }

    /// Whether an INVITE of the call received its response in this client transaction.
    #[tactic(auto, unfolding(crate::specs::Entries::has_received_key))]
    pub fn has_received_key(&self, key: TKey) -> bool
        ensures { result ≡ has_received_key key self.now }
    {
        self.call.has_received(key)
    }
}
