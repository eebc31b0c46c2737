//! Targets in the state when a call reaches them.
ghost use Rattle.std.specs.Prelude.{◌≡◌};
ghost use Rattle.mmtel_precedence.specs.Targets.{party_of};

use mmtel_lex::Uri;
use mmtel_rules::Identities2;
use mmtel_sheet_values::Sheet;
use mmtel_types::Peer;

/// The account that is served at a target, in the state when the call reaches it.
#[derive(Clone, Copy)]
pub struct ServedAccount<'a> {
    /// Its record.
    pub sheet: &'a Sheet,
    /// It is registered.
    pub registered: bool,
    /// Its live calls, as caller or as called party, without the attempt that is to be made.
    pub live: u32,
}

/// A target in the state when the call reaches it.
#[derive(Clone, Copy)]
pub struct ReachedTarget<'a> {
    /// The account that is served there, if one is.
    pub served: Option<ServedAccount<'a>>,
    /// It is of the home domain and of no account (`is_unknown` of a target).
    pub is_unknown: bool,
    /// The peer that is the route to it, if there is one.
    pub peer: Option<Peer>,
}

/// The URI as the only identity of a party, for which the outgoing barring of an account is evaluated for a new target. It allocates nothing.
pub fn party_of(uri: Uri) -> Identities2
    ensures exact { result ≡ party_of uri }
{
    match uri {
        Uri::Sip { .. } => Identities2 {
            sip: Some(uri),
            tel: None,
        },
        Uri::Tel { .. } => Identities2 {
            sip: None,
            tel: Some(uri),
        },
    }
}
