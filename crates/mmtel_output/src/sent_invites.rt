//! INVITEs that the server sent.
ghost use Rattle.std.specs.Prelude.{◌≡◌, ◌<◌, ℕ, Some, length, position};
ghost use Rattle.mmtel_output.specs.SentInvites.{after_early_request, early_remote, invite_after_cancel, is_abandoned_key};
ghost use Rattle.mmtel_output.specs.SentInvites.{is_cancellable, is_key, sent_invite, with_early, without};

use mmtel_base::{List, Text};
use mmtel_leg::{Dialogue, Remote};
use mmtel_sip_rules::is_cancel_due;
use mmtel_transaction::TKey;

/// An INVITE that the server sent.
#[derive(Drop)]
pub struct SentInvite {
    /// The dialog with which it was sent.
    pub dialogue: Dialogue,
    /// Its CSeq number.
    pub number: u64,
    /// Its branch after the cookie.
    pub branch: Text,
    /// Its client transaction, known from its first response on.
    pub key: Option<TKey>,
    /// A provisional response was received.
    pub provisional: bool,
    /// A CANCEL was sent.
    pub cancelled: bool,
    /// The text of the ACK of its 2xx, once that ACK was sent.
    pub ack: Option<Text>,
    /// The dialogs of its 2xx responses that got an ACK and at once a BYE.
    pub forks: List<Dialogue>,
    /// The callee's tag, target and route set in the first provisional response other than 100 with a tag: the early dialog that it made (RFC 3261 §12.1.2).
    pub early: Option<Remote>,
    /// The number of the last request that the server made in that early dialog; that of the INVITE where it made none.
    pub early_cseq: u64,
}

/// An INVITE that was abandoned before it had a final response.
#[derive(Drop)]
pub struct AbandonedInvite {
    /// The INVITE.
    pub invite: SentInvite,
    /// It was sent in a confirmed dialog, which is the dialog of each 2xx of it.
    pub in_dialog: bool,
}

impl SentInvite {
    /// An INVITE that was sent in this dialog with this number and this branch.
    pub fn new(dialogue: Dialogue, number: u64, branch: Text) -> SentInvite
        ensures invite { result ≡ sent_invite dialogue number branch }
    {
        SentInvite {
            dialogue,
            number,
            branch,
            key: None,
            provisional: false,
            cancelled: false,
            ack: None,
            forks: List::new(),
            early: None,
            early_cseq: number,
        }
    }

    /// One more request was made in its early dialog (RFC 3261 §12.2.1.1).
    pub fn count_early_request(&mut self)
        ensures requested { self.new ≡ after_early_request self.old }
    {
        self.early_cseq = self.early_cseq.saturating_add(1);
    }

    /// Whether this is its client transaction, as far as that is known from a response.
    pub fn has_key(&self, key: TKey) -> bool
        ensures exact { result ≡ is_key key self.now.key }
    {
        match self.key {
            None => false,
            Some(other) => other.0 == key.0,
        }
    }
}

/// The position of the INVITE of this client transaction among those that were abandoned.
pub fn abandoned_of(abandoned: &[AbandonedInvite], key: TKey) -> Option<usize>
    ensures place { result ≡ position (is_abandoned_key key) abandoned.now }
{
    abandoned.iter().position(|one| one.invite.has_key(key))
}

/// Removes the item at a position, if there is one.
pub fn drop_at<T: Drop>(items: &mut List<T>, at: Option<usize>)
    requires { (n : ℕ) → at ≡ Some n → n < length items.old }
    ensures rest { items.new ≡ without at items.old }
{
    match at {
        None => {}
        Some(at) => drop(items.remove(at)),
    }
}

/// The callee's tag, target and route set in a provisional response of this status, where that makes an early dialog.
pub fn early_remote(code: u16, remote: Remote) -> Option<Remote>
    ensures { result ≡ early_remote code remote }
{
    if code < 101 || remote.tag.bytes().is_empty() {
        return None;
    }
    Some(remote)
}

/// The INVITE with the early dialog that a response made, where it made one and there was none.
pub fn with_early(remote: Option<Remote>, invite: SentInvite) -> SentInvite
    ensures invite { result ≡ with_early remote invite }
{
    match &invite.early {
        Some(_) => invite,
        None => SentInvite {
            early: remote,
            ..invite
        },
    }
}

/// Whether a CANCEL is due: a provisional response was received, and none was sent (RFC 3261 §9.1).
pub fn is_cancellable(invite: &SentInvite) -> bool
    ensures { result ≡ is_cancellable invite.now }
{
    is_cancel_due(invite.provisional, invite.cancelled)
}

/// The INVITE once it was cancelled, where that was due.
pub fn invite_after_cancel(invite: SentInvite) -> SentInvite
    ensures invite { result ≡ invite_after_cancel invite }
{
    let mut invite = invite;
    if is_cancellable(&invite) {
        invite.cancelled = true;
    }
    invite
}
