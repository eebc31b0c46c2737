//! The listing of the outputs of a run.
ghost use Rattle.std.specs.Prelude.{◌≡◌, ◌≤◌, ◌<◌, ◌++◌, ◌∷◌, length, take, drop, decimal, codes, IfOk, OnOk};
ghost use Rattle.std.specs.Option.{option_copied};
ghost use Rattle.std.specs.List.{list_all};
ghost use Rattle.mmtel_script.specs.Listing.{before_crlf, is_plain, hex_digit, hex_line, marked_line, piece_line, pieces_of, data_lines, offer_lines, listing_of};

use mmtel_base::{List, NoMemory, Text, add_number};
use mmtel_environment::Offer;
use mmtel_types::Peer;
use std::alloc::Global;

/// How many bytes the first piece has, its CRLF included.
fn first_piece_len(bytes: &[u8]) -> usize
    requires { 0 < length bytes.now }
    ensures first { pieces_of bytes.now ≡ take result bytes.now ∷ pieces_of (drop result bytes.now) }
    ensures filled { 0 < result }
    ensures within { result ≤ length bytes.now }
{
    let mut after_cr = false;
    for (i, byte) in bytes.iter().enumerate() {
        if after_cr && *byte == b'\n' {
            return i + 1;
        }
        after_cr = *byte == b'\r';
    }
    bytes.len()
}

fn is_all_plain(bytes: &[u8]) -> bool
    ensures { result ≡ list_all is_plain bytes.now }
{
    bytes.iter().all(|byte| 32 <= *byte && *byte <= 126)
}

fn digit_of(value: u8) -> u8
    requires { value < 16 }
    ensures { result ≡ hex_digit value }
{
    if value < 10 {
        b'0' + value
    } else {
        b'a' + (value - 10)
    }
}

fn add_hex_line(alloc: Global, out: &mut Text, bytes: &[u8]) -> Result<(), NoMemory>
    ensures { OnOk result (out.new ≡ out.old ++ hex_line bytes.now) }
{
    out.push(alloc, b"x")?;
    for byte in bytes {
        out.push(alloc, &[digit_of(*byte / 16), digit_of(*byte % 16)])?;
    }
    out.push(alloc, b"\n")
}

fn add_marked_line(
    alloc: Global,
    out: &mut Text,
    mark: &[u8],
    bytes: &[u8],
    piece: &[u8],
) -> Result<(), NoMemory>
    ensures { OnOk result (out.new ≡ out.old ++ marked_line mark.now bytes.now piece.now) }
{
    if !is_all_plain(bytes) {
        return add_hex_line(alloc, out, piece);
    }
    out.push(alloc, mark)?;
    out.push(alloc, bytes)?;
    out.push(alloc, b"\n")
}

/// What precedes the CRLF at the end of a piece, where there is one.
fn without_crlf(piece: &[u8]) -> Option<&[u8]>
    ensures { option_copied result ≡ before_crlf piece.now }
{
    if piece.len() < 2 {
        return None;
    }
    let (front, end) = piece.split_at(piece.len() - 2);
    if end == b"\r\n".as_slice() {
        Some(front)
    } else {
        None
    }
}

fn add_piece(alloc: Global, out: &mut Text, piece: &[u8]) -> Result<(), NoMemory>
    ensures { OnOk result (out.new ≡ out.old ++ piece_line piece.now) }
{
    match without_crlf(piece) {
        Some(bytes) => add_marked_line(alloc, out, b"|", bytes, piece),
        None => add_marked_line(alloc, out, b"+", piece, piece),
    }
}

fn add_data(alloc: Global, out: &mut Text, bytes: &[u8]) -> Result<(), NoMemory>
    ensures { OnOk result (out.new ≡ out.old ++ data_lines bytes.now) }
{
    let mut rest = bytes;
    'pieces: while !rest.is_empty() {
        let (piece, more) = rest.split_at(first_piece_len(rest));
        add_piece(alloc, out, piece)?;
        rest = more;
    }
    Ok(())
}

fn add_moment(alloc: Global, out: &mut Text, at: u64) -> Result<(), NoMemory>
    ensures { OnOk result (out.new ≡ out.old ++ codes "at " ++ decimal at) }
{
    out.push(alloc, b"at ")?;
    add_number(alloc, out, at)
}

fn add_peer(alloc: Global, out: &mut Text, peer: Peer) -> Result<(), NoMemory>
    ensures { OnOk result (out.new ≡ out.old ++ codes " to " ++ decimal peer.0 ++ codes "\n") }
{
    out.push(alloc, b" to ")?;
    add_number(alloc, out, u64::from(peer.0))?;
    out.push(alloc, b"\n")
}

fn add_offer(alloc: Global, out: &mut Text, offer: &Offer) -> Result<(), NoMemory>
    ensures { OnOk result (out.new ≡ out.old ++ offer_lines offer.now) }
{
    match offer {
        Offer::To { peer, at, text } => {
            add_moment(alloc, out, *at)?;
            add_peer(alloc, out, *peer)?;
            add_data(alloc, out, text.bytes())
        }
        Offer::Web { at, text } => {
            add_moment(alloc, out, *at)?;
            out.push(alloc, b" web\n")?;
            add_data(alloc, out, text.bytes())
        }
    }
}

/// The listing of the outputs, in their order.
///
/// Each begins with a line `at M to N` or `at M web`, where `M` is its moment in milliseconds since 1970-01-01T00:00:00Z and `N` the number of
/// a peer. Its bytes follow: each piece that a CRLF ends as a line of `|` and the piece, and what remains after the last CRLF, if anything, as a line of `+`
/// and those bytes. A piece with a byte outside 32 to 126 is a line of `x` and its bytes, the CRLF included, as pairs of hexadecimal digits. Each line of the
/// listing ends with LF.
///
/// # Errors
///
/// Out of memory only.
pub fn listing(alloc: Global, offers: &List<Offer>) -> Result<Text, NoMemory>
    ensures text { IfOk result (λ text. text ≡ listing_of offers.now) }
{
    let mut out = Text::new();
    for offer in offers.items() {
        add_offer(alloc, &mut out, offer)?;
    }
    Ok(out)
}
