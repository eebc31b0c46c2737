//! The header table: names of header fields, by what is done with these fields where a message is relayed.
ghost use Rattle.std.specs.Prelude.{◌≡◌};
ghost use Rattle.mmtel_trust.specs.Kinds.{header_groups, kind_in, personal_names, session_names, trusted_names, content_names, further_names, is_among, kind_of};

use crate::texts::equals_ignoring_case;

/// What is done with a header field where its message is relayed.
#[derive(Clone, Copy, Debug, PartialEq, Eq)]
pub enum HeaderKind {
    /// From: the server writes its own.
    From,
    /// To: the server writes its own.
    To,
    /// Contact: the server writes its own.
    Contact,
    /// P-Asserted-Identity (RFC 3325): passed where it is believed and may be shown.
    Asserted,
    /// P-Served-User (RFC 5502): not passed.
    Served,
    /// Privacy (RFC 3323): passed to trusted peers.
    Privacy,
    /// History-Info (RFC 7044): the server writes its own.
    History,
    /// Supported and Require: the option `histinfo` is passed, and `100rel` and `timer` where these are served.
    Options,
    /// Session-Expires and Min-SE (RFC 4028 §4, §5): passed where session timers are served.
    Session,
    /// Passed to every peer.
    Passed,
    /// Identifies a party: passed where that party is not restricted.
    Personal,
    /// Of the trust domain: passed from a trusted peer to a trusted peer.
    Trusted,
    /// Not passed.
    Other,
}

fn is_personal(name: &[u8]) -> bool
    ensures { result ≡ is_among personal_names name.now }
{
    equals_ignoring_case(name, b"Subject")
        || equals_ignoring_case(name, b"Call-Info")
        || equals_ignoring_case(name, b"Organization")
        || equals_ignoring_case(name, b"User-Agent")
        || equals_ignoring_case(name, b"Server")
        || equals_ignoring_case(name, b"Reply-To")
        || equals_ignoring_case(name, b"In-Reply-To")
}

fn is_session(name: &[u8]) -> bool
    ensures { result ≡ is_among session_names name.now }
{
    equals_ignoring_case(name, b"Session-Expires") || equals_ignoring_case(name, b"Min-SE")
}

fn is_trusted(name: &[u8]) -> bool
    ensures { result ≡ is_among trusted_names name.now }
{
    equals_ignoring_case(name, b"P-Access-Network-Info")
        || equals_ignoring_case(name, b"P-Asserted-Service")
        || equals_ignoring_case(name, b"P-Early-Media")
}

fn is_content(name: &[u8]) -> bool
    ensures { result ≡ is_among content_names name.now }
{
    equals_ignoring_case(name, b"Accept")
        || equals_ignoring_case(name, b"Accept-Contact")
        || equals_ignoring_case(name, b"Accept-Encoding")
        || equals_ignoring_case(name, b"Accept-Language")
        || equals_ignoring_case(name, b"Alert-Info")
        || equals_ignoring_case(name, b"Content-Disposition")
        || equals_ignoring_case(name, b"Content-Encoding")
        || equals_ignoring_case(name, b"Content-Language")
}

fn is_further(name: &[u8]) -> bool
    ensures { result ≡ is_among further_names name.now }
{
    equals_ignoring_case(name, b"Content-Type")
        || equals_ignoring_case(name, b"MIME-Version")
        || equals_ignoring_case(name, b"Priority")
        || equals_ignoring_case(name, b"Reason")
        || equals_ignoring_case(name, b"Reject-Contact")
        || equals_ignoring_case(name, b"Request-Disposition")
        || equals_ignoring_case(name, b"Retry-After")
        || equals_ignoring_case(name, b"Unsupported")
}

/// The kind of a name, for the kinds that several names have.
fn group_kind(name: &[u8]) -> HeaderKind
    ensures { result ≡ kind_in header_groups name.now }
{
    if equals_ignoring_case(name, b"Supported") || equals_ignoring_case(name, b"Require") {
        return HeaderKind::Options;
    }
    if is_session(name) {
        return HeaderKind::Session;
    }
    if is_personal(name) {
        return HeaderKind::Personal;
    }
    if is_trusted(name) {
        return HeaderKind::Trusted;
    }
    if is_content(name) {
        return HeaderKind::Passed;
    }
    if is_further(name) {
        return HeaderKind::Passed;
    }
    HeaderKind::Other
}

/// What is done with header fields of this name, which is compared without case.
#[tactic(auto, unfolding(crate::specs::Kinds::kind_of))]
pub fn kind_of(name: &[u8]) -> HeaderKind
    ensures table { result ≡ kind_of name.now }
{
    if equals_ignoring_case(name, b"From") {
        return HeaderKind::From;
    }
    if equals_ignoring_case(name, b"To") {
        return HeaderKind::To;
    }
    if equals_ignoring_case(name, b"Contact") {
        return HeaderKind::Contact;
    }
    if equals_ignoring_case(name, b"P-Asserted-Identity") {
        return HeaderKind::Asserted;
    }
    if equals_ignoring_case(name, b"P-Served-User") {
        return HeaderKind::Served;
    }
    if equals_ignoring_case(name, b"Privacy") {
        return HeaderKind::Privacy;
    }
    if equals_ignoring_case(name, b"History-Info") {
        return HeaderKind::History;
    }
    group_kind(name)
}
