//! When a SUBSCRIBE is refused, and else for how long the subscription is active.
ghost use Rattle.std.specs.Prelude.{◌≡◌};
ghost use Rattle.std.specs.Option.{option_copied};
ghost use Rattle.mmtel_mwi.specs.Subscribing.{granted_seconds, is_authorized, is_same_account, is_summary, refusal};

use mmtel_types::Account;
use std::marker::Model;

/// The duration of a subscription where a SUBSCRIBE gives none, in seconds (RFC 3842 §3.4).
const DEFAULT_EXPIRES: u64 = 3600;

/// The longest duration of a subscription, in seconds.
const MAX_EXPIRES: u64 = 86_400;

/// What the decision on a SUBSCRIBE depends on.
#[derive(Drop)]
pub struct SubscribeRequest<'a> {
    /// It came from a trusted peer.
    pub trusted: bool,
    /// It is within the dialog of an active subscription.
    pub in_dialog: bool,
    /// The account of the identity that is asserted of its sender.
    pub sender: Option<Account>,
    /// The account whose mailbox its Request-URI names.
    pub mailbox: Option<Account>,
    /// The value of its first Event.
    pub event: Option<&'a [u8]>,
    /// It has one Contact, which can be read.
    pub has_contact: bool,
}

impl<'a> Model for SubscribeRequest<'a> {
    ghost use Rattle.std.specs.Option.{option_copied};
    ghost use Rattle.mmtel_mwi.specs.Subscribing.{SubscribeRequestView};

    ghost Value = { SubscribeRequestView };

    ghost view = { λ a. record {
      trusted = a.trusted;
      in_dialog = a.in_dialog;
      sender = a.sender;
      mailbox = a.mailbox;
      event = option_copied a.event;
      has_contact = a.has_contact;
    } };
}

/// Whether both are the same account.
fn is_same_account(one: Option<Account>, other: Option<Account>) -> bool
    ensures { result ≡ is_same_account one other }
{
    match one {
        None => false,
        Some(account) => match other {
            None => false,
            Some(second) => account.0 == second.0,
        },
    }
}

/// Whether the event is `message-summary`, the only one that is supported, without parameters (RFC 3842 §3.1).
fn is_summary(event: Option<&[u8]>) -> bool
    ensures { result ≡ is_summary (option_copied event.entry) }
{
    match event {
        None => false,
        Some(event) => event == b"message-summary".as_slice(),
    }
}

/// Whether the sender may subscribe: the mailbox is its own. Within the dialog of a subscription that is not checked again.
fn is_authorized(request: &SubscribeRequest<'_>) -> bool
    ensures { result ≡ is_authorized request.now }
{
    request.in_dialog || is_same_account(request.sender, request.mailbox)
}

/// The status of the first refusal of a SUBSCRIBE that applies: 403 from a peer that is not trusted, and where the mailbox is not the sender's own; 489 for another event than
/// `message-summary`, or none; 400 without one Contact that can be read (RFC 6665 §4.2.1). None where it makes a subscription, or refreshes one.
pub fn refusal(request: &SubscribeRequest<'_>) -> Option<u16>
    ensures first { result ≡ refusal request.now }
{
    if !request.trusted {
        return Some(403);
    }
    if !is_authorized(request) {
        return Some(403);
    }
    if !is_summary(request.event) {
        return Some(489);
    }
    if !request.has_contact {
        return Some(400);
    }
    None
}

/// For how many seconds a subscription is active by a SUBSCRIBE with this Expires: 3600 without one, and at most 86,400; 0 ends it (RFC 6665 §4.2.1).
pub fn granted_seconds(expires: Option<u64>) -> u64
    ensures seconds { result ≡ granted_seconds expires }
{
    let seconds = expires.unwrap_or(DEFAULT_EXPIRES);
    if seconds > MAX_EXPIRES {
        MAX_EXPIRES
    } else {
        seconds
    }
}
