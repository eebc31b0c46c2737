//! Values of Session-Expires (RFC 4028 §4).
ghost use Rattle.std.specs.Prelude.{◌≡◌, ◌↔◌, IfOk, Ok, Err};
ghost use Rattle.std.specs.Option.{ok_or, option_copied};
ghost use Rattle.mmtel_lex.specs.declared.faults.LexFault.TheVariants as lex;
ghost use Rattle.mmtel_session.specs.SessionExpires.{IsSession, refresher_by, refresher_in, refresher_of, session_of};
ghost use Rattle.mmtel_session.specs.declared.values.SessionExpires.{SessionExpires};

use mmtel_base::{Class, number_up_to, split_run};
use mmtel_lex::{LexFault, ParamsRef, params_ref};

/// The greatest number of seconds that a value may have: those of SIP are below 2^31 (RFC 3261 §25.1: delta-seconds).
const GREATEST_INTERVAL: u64 = 2_147_483_647;

/// What a value of Session-Expires says (RFC 4028 §4).
#[derive(Clone, Copy, Debug, PartialEq, Eq)]
pub struct SessionExpires {
    /// The interval of the session in seconds, below 2^31.
    pub interval: u32,
    /// Whether the side that sends the request refreshes the session (`uac`), or the one that responds to it (`uas`); None where the value leaves that open.
    pub caller_refreshes: Option<bool>,
}

/// Whether the side that sends the request is the refresher, by a word, which is compared byte for byte; None where it is neither of the two.
fn refresher_of(word: &[u8]) -> Option<bool>
    ensures { result ≡ refresher_of word.now }
{
    if word == b"uac".as_slice() {
        return Some(true);
    }
    if word == b"uas".as_slice() {
        return Some(false);
    }
    None
}

/// The same by the value of a parameter `refresher`, which has to be present.
fn refresher_by(word: Option<&[u8]>) -> Option<Option<bool>>
    ensures { result ≡ refresher_by (option_copied word.entry) }
{
    let caller = refresher_of(word?)?;
    Some(Some(caller))
}

/// The same by the first parameter `refresher`; the inner value is None where there is none.
fn refresher_in(params: &ParamsRef<'_>) -> Option<Option<bool>>
    ensures { result ≡ refresher_in params.now }
{
    if params.has(b"refresher") {
        refresher_by(params.value(b"refresher"))
    } else {
        Some(None)
    }
}

/// What the bytes say as a value of Session-Expires.
#[tactic(auto, unfolding(crate::specs::SessionExpires::session_of, mmtel_lex::specs::Reading::params_of))]
fn session(bytes: &[u8]) -> Result<SessionExpires, LexFault>
    ensures { result ≡ ok_or (session_of bytes.now) lex.Malformed }
{
    let (digits, rest) = split_run(Class::Digit, bytes);
    let interval = number_up_to(GREATEST_INTERVAL, digits).ok_or(LexFault::Malformed)?;
    let (params, rest) = params_ref(rest).ok_or(LexFault::Malformed)?;
    if !rest.is_empty() {
        return Err(LexFault::Malformed);
    }
    let caller_refreshes = refresher_in(&params).ok_or(LexFault::Malformed)?;
    Ok(SessionExpires {
        interval: interval as u32,
        caller_refreshes,
    })
}

/// Reads a value of Session-Expires (RFC 4028 §4): a number of seconds, and parameters after it. It allocates nothing.
///
/// # Errors
///
/// `Malformed` exactly where the bytes are not a number below 2^31 with parameters after it, or where their first `refresher` is neither `uac` nor `uas`.
pub fn read_session(bytes: &[u8]) -> Result<SessionExpires, LexFault>
    // The result is that of the total reading function.
    ensures exact { result ≡ ok_or (session_of bytes.now) lex.Malformed }
    // What is read is what the bytes say.
    ensures found { IfOk result (λ session. IsSession bytes.now session) }
    // What the bytes say is read.
    ensures only { (session : SessionExpires) → IsSession bytes.now session → result ≡ Ok session }
    // The bytes are malformed exactly where they say nothing.
    ensures malformed { result ≡ Err lex.Malformed ↔ ((session : SessionExpires) → IsSession bytes.now session → ⊥) }
{
    session(bytes)
}
