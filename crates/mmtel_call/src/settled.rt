//! Whether a call is live, whether anything may still be received for it, and which requests belong to it.
ghost use Rattle.std.specs.Prelude.{◌≡◌};
ghost use Rattle.mmtel_call.specs.Settled.{has_received, has_sent, is_over_in, is_settled};

use crate::calls::{Call, Phase};
use crate::other_requests::{answered_invite_at, answered_invite_of};
use crate::relayed_transactions::relayed_at;
use mmtel_output::{abandoned_at, abandoned_of};
use mmtel_transaction::TKey;

impl Call {
    /// Whether the call is over.
    pub fn is_over(&self) -> bool
        ensures { result ≡ is_over_in self.now.phase }
    {
        match &self.phase {
            Phase::Offered(_) => false,
            Phase::Established(_, _) => false,
            Phase::Detached(_) => false,
            Phase::Over(_) => true,
        }
    }

    /// Whether the call is over and nothing more may be received for any INVITE of it.
    #[tactic(auto, unfolding(crate::specs::Settled::is_settled))]
    pub fn is_settled(&self) -> bool
        ensures { result ≡ is_settled self.now }
    {
        self.is_over()
            && self.abandoned.items().len() == 0
            && self.answered_invites.items().len() == 0
    }

    /// Whether a request of the call to which a response may still be received has this branch, without its cookie: the INVITE for which the call waits, an abandoned INVITE, one
    /// that had a 2xx, or a request that is in flight.
    #[tactic(auto, unfolding(crate::specs::Settled::has_sent))]
    pub fn has_sent(&self, branch: &[u8]) -> bool
        ensures { result ≡ has_sent branch.now self.now }
    {
        self.phase.waits_on(branch)
            || abandoned_at(self.abandoned.items(), branch).is_some()
            || answered_invite_at(self.answered_invites.items(), branch).is_some()
            || relayed_at(self.relayed.items(), branch).is_some()
    }

    /// Whether this is the client transaction of an abandoned INVITE of the call, or of one that had a 2xx, as far as that is known from a response.
    #[tactic(auto, unfolding(crate::specs::Settled::has_received))]
    pub fn has_received(&self, key: TKey) -> bool
        ensures { result ≡ has_received key self.now }
    {
        abandoned_of(self.abandoned.items(), key).is_some()
            || answered_invite_of(self.answered_invites.items(), key).is_some()
    }
}
