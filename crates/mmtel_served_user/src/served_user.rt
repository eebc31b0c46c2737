//! Whom the server serves in a call, and the state of a registration (RFC 5502 §6, TS 24.229 §5.7.1.3A).
ghost use Rattle.std.specs.Prelude.{◌≡◌};
ghost use Rattle.mmtel_served_user.specs.ServedUser.{diverted_served, is_of_no_account, is_registered};

use mmtel_types::Account;

/// Whom the server serves in a call: the session cases, and what a P-Served-User from a trusted peer says of them.
#[derive(Clone, Copy, Debug, PartialEq, Eq)]
pub struct Served {
    /// The account that is served as the caller.
    pub origin: Option<Account>,
    /// The account that is served as the first target.
    pub target: Option<Account>,
    /// Whether both cases are served, as where no P-Served-User is trusted; otherwise only one of them is.
    pub both: bool,
}

impl Served {
    /// Whether only one case is served, and for a user of no account, so that the call is refused.
    pub fn is_of_no_account(&self) -> bool
        ensures exact { result ≡ is_of_no_account self.now }
    {
        !self.both && self.origin.is_none() && self.target.is_none()
    }

    /// The account whose services apply at a target of this account to which the call is diverted. Where only one case is served there is none, since the call then returns
    /// through the core.
    pub fn diverted_served(&self, account: Option<Account>) -> Option<Account>
        ensures exact { result ≡ diverted_served self.now account }
    {
        if self.both { account } else { None }
    }
}

/// The state of a user's registration (RFC 5502 §6: `regstate`).
#[derive(Clone, Copy, Debug, PartialEq, Eq)]
pub enum RegistrationState {
    /// `reg`.
    Registered,
    /// `unreg`.
    Unregistered,
}

/// Whether a user is registered: the given state decides, otherwise what the table of registrations says of its account.
pub fn is_registered(reported: Option<RegistrationState>, known: bool) -> bool
    ensures exact { result ≡ is_registered reported known }
{
    match reported {
        None => known,
        Some(RegistrationState::Registered) => true,
        Some(RegistrationState::Unregistered) => false,
    }
}
