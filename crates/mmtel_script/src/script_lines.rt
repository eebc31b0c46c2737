//! The lines of a script, one by one.
ghost use Rattle.std.specs.Prelude.{◌≡◌, ◌<◌, length, Some, None, IfOk, IfSome, MatchOption};
ghost use Rattle.std.specs.Option.{option_map};
ghost use Rattle.mmtel_script.specs.Script.{event_start_line, datagram_from, digits_line, event_at, event_line, hex_bytes, leading_byte, hex_value, line_of, with_first};

use mmtel_base::{NoMemory, Text, plain_number, split_once_at};
use mmtel_directory::read_peer;
use mmtel_environment::Event;
use mmtel_trust::PeerTable;
use mmtel_types::Moment;
use mmtel_types::limits::LAST_MOMENT;
use std::alloc::Global;

/// The content of a line.
#[derive(Drop)]
pub enum ScriptLine {
    /// Nothing: it is empty, or begins with `#`.
    Comment,
    /// An event begins, without bytes yet.
    Begins(Event),
    /// Bytes of the event above.
    Data(Text),
}

/// The number that a hexadecimal digit of lower case writes.
fn hex_value(digit: u8) -> Option<u8>
    ensures value { result ≡ hex_value digit }
    ensures below { IfSome result (λ n. n < 16) }
{
    if b'0' <= digit && digit <= b'9' {
        Some(digit - b'0')
    } else if b'a' <= digit && digit <= b'f' {
        Some(digit - b'a' + 10)
    } else {
        None
    }
}

/// The byte that the first two digits write, and what follows them.
fn leading_byte(digits: &[u8]) -> Option<(u8, &[u8])>
    ensures { option_map (λ x. (x.0, x.1.now)) result ≡ leading_byte digits.now }
{
    match digits {
        [high, low, more @ ..] => {
            let high = hex_value(*high)?;
            let low = hex_value(*low)?;
            Some((high * 16 + low, more))
        }
        _ => None,
    }
}

/// The first byte that pairs of digits write, and the pairs after it; None where the first two bytes are no digits.
fn next_byte(digits: &[u8]) -> Option<(u8, &[u8])>
    requires { 0 < length digits.now }
    ensures bytes { MatchOption result (hex_bytes digits.now ≡ None) (λ x. hex_bytes digits.now ≡ with_first x.0 (hex_bytes x.1.now)) }
    ensures shorter { IfSome result (λ x. length x.1.now < length digits.now) }
{
    match leading_byte(digits) {
        Some((byte, more)) => Some((byte, more)),
        None => None,
    }
}

/// The bytes that pairs of digits write.
fn read_hex(alloc: Global, digits: &[u8]) -> Result<Option<Text>, NoMemory>
    ensures { IfOk result (λ bytes. bytes ≡ hex_bytes digits.now) }
{
    let mut bytes = Text::new();
    let mut rest = digits;
    'pairs: while !rest.is_empty() {
        match next_byte(rest) {
            None => return Ok(None),
            Some((byte, more)) => {
                bytes.push(alloc, &[byte])?;
                rest = more;
            }
        }
    }
    Ok(Some(bytes))
}

fn digits_line(alloc: Global, digits: &[u8]) -> Result<Option<ScriptLine>, NoMemory>
    ensures { IfOk result (λ line. line ≡ digits_line digits.now) }
{
    match read_hex(alloc, digits)? {
        None => Ok(None),
        Some(bytes) => Ok(Some(ScriptLine::Data(bytes))),
    }
}

fn datagram_from(at: Moment, rest: &[u8], peers: &PeerTable) -> Option<Event>
    ensures { result ≡ datagram_from peers.now.known at rest.now }
{
    let (word, number) = split_once_at(b' ', rest)?;
    let from = peers.addr(read_peer(number)?)?;
    if word == b"peer".as_slice() {
        Some(Event::Datagram {
            from,
            at,
            bytes: Text::new(),
        })
    } else {
        None
    }
}

/// The event at this moment that the words after it name.
fn event_at(at: Moment, rest: &[u8], peers: &PeerTable) -> Option<Event>
    ensures { result ≡ event_at peers.now.known at rest.now }
{
    if rest == b"web".as_slice() {
        Some(Event::Web {
            at,
            bytes: Text::new(),
        })
    } else if rest == b"quiet".as_slice() {
        Some(Event::Quiet { at })
    } else {
        datagram_from(at, rest, peers)
    }
}

fn event_line(line: &[u8], peers: &PeerTable) -> Option<Event>
    ensures { result ≡ event_line peers.now.known line.now }
{
    let (at, rest) = split_once_at(b' ', line)?;
    let (moment, rest) = split_once_at(b' ', rest)?;
    let moment = Moment::new(plain_number(LAST_MOMENT, moment)?)?;
    if at == b"at".as_slice() {
        event_at(moment, rest, peers)
    } else {
        None
    }
}

fn event_start_line(line: &[u8], peers: &PeerTable) -> Option<ScriptLine>
    ensures { result ≡ event_start_line peers.now.known line.now }
{
    Some(ScriptLine::Begins(event_line(line, peers)?))
}

/// The content of a line; None where it is of no form of the grammar.
#[tactic(auto, unfolding(crate::specs::Script::line_of))]
pub fn read_script_line(
    alloc: Global,
    line: &[u8],
    peers: &PeerTable,
) -> Result<Option<ScriptLine>, NoMemory>
    ensures { IfOk result (λ read. read ≡ line_of peers.now.known line.now) }
{
    match line {
        [] => Ok(Some(ScriptLine::Comment)),
        [b'#', ..] => Ok(Some(ScriptLine::Comment)),
        [b'|', bytes @ ..] => {
            let mut data = Text::of(alloc, bytes)?;
            data.push(alloc, b"\r\n")?;
            Ok(Some(ScriptLine::Data(data)))
        }
        [b'+', bytes @ ..] => Ok(Some(ScriptLine::Data(Text::of(alloc, bytes)?))),
        [b'x', digits @ ..] => digits_line(alloc, digits),
        _ => Ok(event_start_line(line, peers)),
    }
}
