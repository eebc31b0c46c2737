//! The conditions under which a request that opens a transaction is refused (RFC 3261 §8.2).
ghost use Rattle.std.specs.Prelude.{◌≡◌, IfOk, map};
ghost use Rattle.std.specs.List.{list_any};
ghost use Rattle.mmtel_leg.specs.Dialogues.{request_uri};
ghost use Rattle.mmtel_lex.specs.Reading.{uri_of};
ghost use Rattle.mmtel_run_definitions.specs.OwnResponses.{is_unsupported, unsupported_line, unsupported_options};
ghost use Rattle.mmtel_message.specs.Faults.{is_method};
ghost use Rattle.mmtel_run_definitions.specs.Refusals.{always_known, is_foreign_uri, is_known_method, is_last_hop, is_timed};
ghost use Rattle.mmtel_admission.specs.Targets.{target_in};

use mmtel_base::{List, NoMemory, number_up_to};
use mmtel_compose::ReceivedMessage;
use mmtel_directory::Directory;
use mmtel_leg::request_uri;
use mmtel_lex::{Uri, UriFault, read_uri};
use mmtel_message::{Line, Start, add_bytes, is_method, line_texts};
use std::alloc::Global;

/// The kinds of Request-URI.
#[derive(Drop)]
pub enum Target {
    /// A sip or tel URI.
    Known(Uri),
    /// Bytes that are no URI.
    Malformed,
    /// A URI of another scheme.
    Foreign,
}

/// What kind the Request-URI of a request is; it is read once.
pub fn read_target(alloc: Global, start: &Start) -> Result<Target, NoMemory>
    ensures { IfOk result (λ target. target_in target ≡ uri_of (request_uri start.now)) }
{
    match read_uri(alloc, request_uri(start)) {
        Ok(uri) => Ok(Target::Known(uri)),
        Err(UriFault::Malformed) => Ok(Target::Malformed),
        Err(UriFault::Scheme) => Ok(Target::Foreign),
        Err(UriFault::NoMemory) => Err(NoMemory),
    }
}

/// Whether the URI is of another scheme than sip and tel (RFC 3261 §8.2.2.1).
pub fn is_foreign(target: &Target) -> bool
    ensures { result ≡ is_foreign_uri (target_in target.now) }
{
    match target {
        Target::Known(_) => false,
        Target::Malformed => false,
        Target::Foreign => true,
    }
}

/// Whether the method is one that the server always knows.
fn is_always_known(start: &Start) -> bool
    ensures { result ≡ list_any (λ name. is_method name start.now) always_known }
{
    is_method(b"INVITE", start)
        || is_method(b"ACK", start)
        || is_method(b"CANCEL", start)
        || is_method(b"BYE", start)
        || is_method(b"OPTIONS", start)
        || is_method(b"REGISTER", start)
        || is_method(b"REFER", start)
}

/// Whether the method is one that the server knows (RFC 3261 §20.5).
pub fn is_known_method(directory: &Directory, start: &Start) -> bool
    ensures { result ≡ is_known_method directory.now start.now }
{
    is_always_known(start)
        || directory.reliable && (is_method(b"PRACK", start) || is_method(b"UPDATE", start))
        || directory.names.mwi && is_method(b"SUBSCRIBE", start)
}

/// Whether the request may ask for a session timer, where session timers are switched on (RFC 4028 §3, §7.1).
pub fn is_timed(directory: &Directory, start: &Start) -> bool
    ensures { result ≡ is_timed directory.now start.now }
{
    directory.timer && (is_method(b"INVITE", start) || is_method(b"UPDATE", start))
}

/// Whether no hops are left (RFC 3261 §16.3).
pub fn is_last_hop(request: &ReceivedMessage) -> bool
    ensures { result ≡ is_last_hop request.now.parsed.hops }
{
    match request.message.first(b"Max-Forwards") {
        None => false,
        Some(value) => match number_up_to(255, value) {
            None => false,
            Some(hops) => hops == 0,
        },
    }
}

/// Whether an option of Require is one that the server does not support.
fn is_unsupported(directory: &Directory, option: &[u8]) -> bool
    ensures { result ≡ is_unsupported directory.now option.now }
{
    !(option == b"histinfo".as_slice()
        || directory.reliable && option == b"100rel".as_slice()
        || directory.timer && option == b"timer".as_slice())
}

/// An Unsupported header field for each option that a request requires and the server does not support, in received order (RFC 3261 §8.2.2.3, §20.40).
#[tactic(auto, unfolding(mmtel_message::specs::Message::line))]
pub fn unsupported_lines(
    alloc: Global,
    directory: &Directory,
    request: &ReceivedMessage,
) -> Result<List<Line>, NoMemory>
    ensures { IfOk result (λ lines. lines ≡ map unsupported_line (unsupported_options directory.now request.now.parsed)) }
{
    let options = line_texts(alloc, &request.message.lines(), b"Require")?;
    let mut lines = List::new();
    for option in options.items() {
        if is_unsupported(directory, option.bytes()) {
            add_bytes(alloc, &mut lines, b"Unsupported", option.bytes())?;
        }
    }
    Ok(lines)
}
