//! The listing.

use crate::asserting::assert_right;
use mmtel_base::List;
use mmtel_environment::Offer;
use mmtel_script::listing;
use mmtel_test_tables::Transcript;
use mmtel_types::Peer;
use std::alloc::Global;

/// Adds an output to a list.
pub fn push(transcript: &mut Transcript, offers: &mut List<Offer>, offer: Offer) {
    let done = offers.push(transcript.alloc, offer);
    transcript.fail_unless(done.is_ok());
}

/// Writes the listing of outputs, and a line `.`.
fn write_listed(transcript: &mut Transcript, offers: &List<Offer>) {
    let text = listing(transcript.alloc, offers);
    if let Some(text) = transcript.value_or_fail(text) {
        transcript.add(text.bytes());
    }
    transcript.add_line(b".");
}

/// Writes the listing of a datagram to the peer of number 2, sent at 7.
fn write_sent(transcript: &mut Transcript, bytes: &[u8]) {
    let text = transcript.copy(bytes);
    let mut offers = List::new();
    let offer = Offer::To {
        peer: Peer(2),
        at: 7,
        text,
    };
    push(transcript, &mut offers, offer);
    write_listed(transcript, &offers);
    drop(offers);
}

/// Writes the listing of a reply at 10, and of one without bytes at the last moment.
fn write_replies(transcript: &mut Transcript) {
    let mut offers = List::new();
    let text = transcript.copy(b"HTTP/1.1 200 OK\r\n\r\nok");
    push(transcript, &mut offers, Offer::Web { at: 10, text });
    let text = transcript.copy(b"");
    let at = u64::MAX;
    push(transcript, &mut offers, Offer::Web { at, text });
    write_listed(transcript, &offers);
    drop(offers);
}

/// The listings of datagrams, and of two replies in their order.
const LISTED: &[u8] = b"at 7 to 2
.
at 7 to 2
|a
|
.
at 7 to 2
|a
+b
.
at 7 to 2
x610a620d0a
+c
.
at 7 to 2
x0d0d0a
.
at 7 to 2
x0d
.
at 7 to 2
| ~
.
at 7 to 2
x1f0d0a
x7fff
.
at 10 web
|HTTP/1.1 200 OK
|
+ok
at 18446744073709551615 web
.
";

fn wrong_listed(alloc: Global) -> usize {
    let mut transcript = Transcript::new(alloc);
    write_sent(&mut transcript, b"");
    write_sent(&mut transcript, b"a\r\n\r\n");
    write_sent(&mut transcript, b"a\r\nb");
    write_sent(&mut transcript, b"a\nb\r\nc");
    write_sent(&mut transcript, b"\r\r\n");
    write_sent(&mut transcript, b"\r");
    write_sent(&mut transcript, b" ~\r\n");
    write_sent(&mut transcript, b"\x1f\r\n\x7f\xff");
    write_replies(&mut transcript);
    transcript.wrong_line(LISTED)
}

#[test]
fn lists_bytes_and_offers(rt: HostRuntime) {
    assert_right(&rt, "listed", wrong_listed(rt.alloc()));
}
