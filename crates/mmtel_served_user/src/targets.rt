//! Targets of a call, and the home domain (RFC 3261 §19.1.6, RFC 3966 §5.1.4).
ghost use Rattle.std.specs.Prelude.{◌≡◌, ◌∷◌, [], Some, IfOk, codes};
ghost use Rattle.mmtel_lex.specs.Identity.{is_visual_separator, without_separators};
ghost use Rattle.mmtel_served_user.specs.Targets.{diverted_target, first_target, is_at_home, is_global, is_global_number, is_unknown, new_target, phone_uri, tel_target};

use mmtel_lex::{List, NoMemory, Param, Params, Text, Uri, UriFault, read_uri};
use mmtel_types::Account;
use std::alloc::Global;

/// A target that a call reaches.
#[derive(Drop)]
pub struct Target {
    /// The URI by which it is identified, barred and routed.
    pub uri: Uri,
    /// Whether a diversion made it from a telephone number: it is in the home domain, and need not belong to an account.
    pub of_number: bool,
}

/// The first target of a call, which its Request-URI names. None where the bytes are no URI, or one of another scheme than `sip` and `tel`.
///
/// # Errors
///
/// Out of memory only.
pub fn first_target(alloc: Global, uri: &[u8]) -> Result<Option<Target>, NoMemory>
    ensures exact { IfOk result (λ target. target ≡ first_target uri.now) }
{
    match read_uri(alloc, uri) {
        Ok(uri) => Ok(Some(Target {
            uri,
            of_number: false,
        })),
        Err(UriFault::Malformed) => Ok(None),
        Err(UriFault::Scheme) => Ok(None),
        Err(UriFault::NoMemory) => Err(NoMemory),
    }
}

fn is_visual_separator(byte: u8) -> bool
    ensures { result ≡ is_visual_separator byte }
{
    byte == b'-' || byte == b'.' || byte == b'(' || byte == b')'
}

/// The number without its visual separators (RFC 3966 §3).
fn without_separators(alloc: Global, number: &[u8]) -> Result<Text, NoMemory>
    ensures { IfOk result (λ text. text ≡ without_separators number.now) }
{
    let mut out = Text::new();
    for byte in number {
        if !is_visual_separator(*byte) {
            out.push(alloc, &[*byte])?;
        }
    }
    Ok(out)
}

fn is_global(number: &[u8]) -> bool
    ensures { result ≡ is_global number.now }
{
    match number {
        [] => false,
        [first, ..] => *first == b'+',
    }
}

/// Whether the URI is a global telephone number, a tel URI that begins with `+` (RFC 3966 §5.1.4): a diversion to it goes to the home domain. It allocates nothing.
pub fn is_global_number(uri: &Uri) -> bool
    ensures exact { result ≡ is_global_number uri.now }
{
    match uri {
        Uri::Sip { .. } => false,
        Uri::Tel { number, .. } => is_global(number.bytes()),
    }
}

/// `;user=phone`.
fn phone_params(alloc: Global) -> Result<Params, NoMemory>
    ensures { IfOk result (λ params. params ≡ record { name = codes "user"; value = Some (codes "phone") } ∷ []) }
{
    let name = Text::of(alloc, b"user")?;
    let value = Text::of(alloc, b"phone")?;
    let mut params = List::new();
    params.push(
        alloc,
        Param {
            name,
            value: Some(value),
        },
    )?;
    Ok(params)
}

/// The sip URI that represents the number in a domain.
fn phone_uri(alloc: Global, number: &[u8], domain: &[u8]) -> Result<Uri, NoMemory>
    ensures { IfOk result (λ uri. uri ≡ phone_uri (without_separators number.now) domain.now) }
{
    let user = without_separators(alloc, number)?;
    let host = Text::of(alloc, domain)?;
    let params = phone_params(alloc)?;
    Ok(Uri::Sip {
        user: Some(user),
        host,
        port: None,
        params,
        headers: Text::new(),
    })
}

fn tel_target(alloc: Global, home: &[u8], number: Text, params: Params) -> Result<Uri, NoMemory>
    ensures { IfOk result (λ uri. uri ≡ tel_target home.now number params) }
{
    if is_global(number.bytes()) {
        return phone_uri(alloc, number.bytes(), home);
    }
    Ok(Uri::Tel { number, params })
}

/// The URI of a target.
fn new_target(alloc: Global, home: &[u8], uri: Uri) -> Result<Uri, NoMemory>
    ensures { IfOk result (λ target. target ≡ new_target home.now uri) }
{
    match uri {
        Uri::Sip {
            user,
            host,
            port,
            params,
            headers,
        } => Ok(Uri::Sip {
            user,
            host,
            port,
            params,
            headers,
        }),
        Uri::Tel { number, params } => tel_target(alloc, home, number, params),
    }
}

/// The target of a diversion to this URI: the URI itself, except `sip:+N@HOME;user=phone` for `tel:+N`, without visual separators and parameters (RFC 3261 §19.1.6).
///
/// # Errors
///
/// Out of memory only; the URI is then dropped.
pub fn diverted_target(alloc: Global, home: &[u8], uri: Uri) -> Result<Target, NoMemory>
    ensures exact { IfOk result (λ target. target ≡ diverted_target home.now uri) }
{
    let of_number = is_global_number(&uri);
    let uri = new_target(alloc, home, uri)?;
    Ok(Target { uri, of_number })
}

/// Whether the URI is a sip URI whose host is the home domain, compared without case. It allocates nothing.
pub fn is_at_home(home: &[u8], uri: &Uri) -> bool
    ensures exact { result ≡ is_at_home home.now uri.now }
{
    match uri {
        Uri::Sip { host, .. } => host.bytes().eq_ignore_ascii_case(home),
        Uri::Tel { .. } => false,
    }
}

impl Target {
    /// Whether the target belongs to nobody: it is in the home domain and of no account, and was not made from a telephone number. It allocates nothing.
    pub fn is_unknown(&self, home: &[u8], account: Option<Account>) -> bool
        ensures exact { result ≡ is_unknown home.now account self.now }
    {
        account.is_none() && (is_at_home(home, &self.uri) && !self.of_number)
    }
}
