//! The parties of a call that a request opens (RFC 5502 §7.2, TS 24.229 §5.7.1.3A).
ghost use Rattle.std.specs.Prelude.{◌≡◌, IfOk, None};
ghost use Rattle.std.specs.Option.{option_copied};
ghost use Rattle.mmtel_trust.specs.Asserted.{asserted};
ghost use Rattle.mmtel_trust.specs.ParsedMessage.{account_from, case_of, parsed_message, served_in};
ghost use Rattle.mmtel_trust.specs.PrivateFields.{is_session};
ghost use Rattle.mmtel_call_parties.specs.Named.{named_origin, named_user};
ghost use Rattle.mmtel_call_parties.specs.Parties.{account_by, account_in, origin_served, parties_of, registration_by};
ghost use Rattle.mmtel_call_parties.specs.Parties.{served_accounts, sides_of, state_of, target_from, target_served};

use crate::served::ServedSides;
use mmtel_identity::if_trusted;
use mmtel_lex::{NameAddr, NoMemory, Param, Uri, param_value};
use mmtel_message::{Msg, Start};
use mmtel_served_user::{RegistrationState, Served};
use mmtel_trust::{Accounts, Identities, asserted, name_addr_in, uri_of};
use mmtel_types::Account;
use std::alloc::Global;

/// Who takes part in a call that a request opens, and which of them is served.
#[derive(Clone, Copy, Debug, PartialEq, Eq)]
pub struct Parties {
    /// The account of the caller, whether it is served or not; None where it has no account.
    pub origin: Option<Account>,
    /// The account of the first target, whether it is served or not; None where it has no account.
    pub target: Option<Account>,
    /// Which of them are served.
    pub served: ServedSides,
    /// The registration state that a trusted peer asserts of the user whom it names as the target; None where it asserts none.
    pub registration: Option<RegistrationState>,
}

/// The user whom a trusted peer names as served: that of the first P-Served-User.
fn named_user(alloc: Global, message: &Msg, trusted: bool) -> Result<Option<NameAddr>, NoMemory>
    ensures { IfOk result (λ user. user ≡ named_user trusted message.now.lines) }
{
    name_addr_in(alloc, if_trusted(trusted, message.first(b"P-Served-User")))
}

/// Whether the first parameter `sescase` is this word.
fn is_session(word: &[u8], params: &[Param]) -> bool
    ensures { result ≡ is_session word.now params.now }
{
    match param_value(params, b"sescase") {
        None => false,
        Some(value) => value == word,
    }
}

/// The sides that are served by the session case of a user.
fn sides_in(params: &[Param]) -> ServedSides
    ensures { result ≡ sides_of (case_of params.now) }
{
    if is_session(b"orig", params) {
        ServedSides::Origin
    } else if is_session(b"term", params) {
        ServedSides::Target
    } else {
        ServedSides::Both
    }
}

fn sides_of(user: &Option<NameAddr>) -> ServedSides
    ensures { result ≡ sides_of (served_in user.now).session_case }
{
    match user {
        None => ServedSides::Both,
        Some(user) => sides_in(user.params.items()),
    }
}

/// The user, where it is served as the caller.
fn named_origin(user: &Option<NameAddr>) -> Option<&NameAddr>
    ensures { option_copied result ≡ named_origin user.now }
{
    match user {
        None => None,
        Some(user) => if is_session(b"orig", user.params.items()) {
            Some(user)
        } else {
            None
        },
    }
}

/// The URI of the user, where it is served as the target.
fn named_target(user: &Option<NameAddr>) -> Option<&[u8]>
    ensures { option_copied result ≡ (served_in user.now).user }
{
    match user {
        None => None,
        Some(user) => if is_session(b"orig", user.params.items()) {
            None
        } else if is_session(b"term", user.params.items()) {
            Some(user.uri.bytes())
        } else {
            None
        },
    }
}

fn account_in(alloc: Global, accounts: &Accounts, uri: &[u8]) -> Result<Option<Account>, NoMemory>
    ensures { IfOk result (λ account. account ≡ account_in accounts.now uri.now) }
{
    match uri_of(alloc, uri)? {
        None => Ok(None),
        Some(uri) => Ok(accounts.find(&uri)),
    }
}

fn account_by(accounts: &Accounts, identity: &Option<Uri>) -> Option<Account>
    ensures { result ≡ account_by accounts.now identity.now }
{
    match identity {
        None => None,
        Some(uri) => accounts.find(uri),
    }
}

/// The account of identities: that of the sip URI, or else of the tel URI (RFC 3325 §9.1).
pub fn account_of(accounts: &Accounts, identities: &Identities) -> Option<Account>
    ensures { result ≡ account_from accounts.now identities.now None }
{
    match account_by(accounts, &identities.sip) {
        Some(account) => Some(account),
        None => account_by(accounts, &identities.tel),
    }
}

/// The account of the user who is served as the caller, or else of the identities that the message asserts of its sender.
fn origin_of(
    alloc: Global,
    accounts: &Accounts,
    message: &Msg,
    trusted: bool,
    user: Option<&NameAddr>,
) -> Result<Option<Account>, NoMemory>
    ensures { IfOk result (λ account. account ≡ account_from accounts.now (asserted trusted message.now.lines) (option_copied user.entry)) }
{
    match user {
        Some(user) => account_in(alloc, accounts, user.uri.bytes()),
        None => {
            let identities = asserted(alloc, message, trusted)?;
            Ok(account_of(accounts, &identities))
        }
    }
}

/// The account of the user who is served as the target, or else of the Request-URI.
fn target_of(
    alloc: Global,
    accounts: &Accounts,
    start: &Start,
    user: Option<&[u8]>,
) -> Result<Option<Account>, NoMemory>
    ensures { IfOk result (λ account. account ≡ target_from accounts.now start.now (option_copied user.entry)) }
{
    match user {
        Some(uri) => account_in(alloc, accounts, uri),
        None => match start {
            Start::Request { method: _, uri } => account_in(alloc, accounts, uri.bytes()),
            Start::Status { code: _, phrase: _ } => Ok(None),
        },
    }
}

/// The registration state of a value of `regstate`.
fn state_of(word: Option<&[u8]>) -> Option<RegistrationState>
    ensures { result ≡ state_of (option_copied word.entry) }
{
    match word {
        None => None,
        Some(word) => if word == b"reg".as_slice() {
            Some(RegistrationState::Registered)
        } else if word == b"unreg".as_slice() {
            Some(RegistrationState::Unregistered)
        } else {
            None
        },
    }
}

/// The registration state that is asserted of the target.
fn registration_of(user: &Option<NameAddr>) -> Option<RegistrationState>
    ensures { result ≡ registration_by (served_in user.now).session_case (served_in user.now).regstate }
{
    match user {
        None => None,
        Some(user) => if is_session(b"orig", user.params.items()) {
            None
        } else if is_session(b"term", user.params.items()) {
            state_of(param_value(user.params.items(), b"regstate"))
        } else {
            None
        },
    }
}

impl Parties {
    /// The parties of a message that came from a peer that is trusted or not.
    ///
    /// A P-Served-User is believed only of a trusted peer, and of several the first counts. The user whom it names is served, as the caller (`orig`) or as the target (`term`),
    /// and it alone determines that side: where it has no account, that side has none. Otherwise the caller's account is that of the sip identity that the peer asserts, or else
    /// of the tel identity, and the target's that of the Request-URI.
    ///
    /// # Errors
    ///
    /// Out of memory only.
    pub fn of(
        alloc: Global,
        accounts: &Accounts,
        message: &Msg,
        trusted: bool,
    ) -> Result<Parties, NoMemory>
        ensures exact { IfOk result (λ parties. parties ≡ parties_of accounts.now (parsed_message trusted message.now)) }
    {
        let user = named_user(alloc, message, trusted)?;
        let origin = origin_of(alloc, accounts, message, trusted, named_origin(&user))?;
        let target = target_of(alloc, accounts, message.start(), named_target(&user))?;
        Ok(Parties {
            origin,
            target,
            served: sides_of(&user),
            registration: registration_of(&user),
        })
    }

    /// The account whose services the caller has, and whose record restricts it.
    pub fn origin_served(&self) -> Option<Account>
        ensures exact { result ≡ origin_served self.now }
    {
        if self.served.serves_origin() {
            self.origin
        } else {
            None
        }
    }

    /// The account whose services the first target has.
    pub fn target_served(&self) -> Option<Account>
        ensures exact { result ≡ target_served self.now }
    {
        if self.served.serves_target() {
            self.target
        } else {
            None
        }
    }

    /// The accounts that the server serves in the call.
    pub fn served_accounts(&self) -> Served
        ensures exact { result ≡ served_accounts self.now }
    {
        Served {
            origin: self.origin_served(),
            target: self.target_served(),
            both: self.served.serves_both(),
        }
    }
}
