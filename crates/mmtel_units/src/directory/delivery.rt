//! Passing a server's outputs to a link.

use crate::asserting::assert_right;
use crate::directory::listings::push;
use mmtel_base::{List, Text};
use mmtel_delivery::deliver_each;
use mmtel_environment::Offer;
use mmtel_link::MemoryLink;
use mmtel_test_tables::Transcript;
use mmtel_trust::PeerTable;
use mmtel_types::{Addr, Peer};
use std::alloc::Global;

/// An address by its last number.
fn addr(last: u8) -> Addr {
    Addr {
        ip: [127, 0, 0, last],
        port: 5060,
    }
}

fn add_peer(transcript: &mut Transcript, peers: &mut PeerTable, number: u8, trusted: bool) {
    let peer = Peer(u16::from(number));
    let done = peers.add_peer(transcript.alloc, peer, addr(number), trusted);
    transcript.fail_unless(done.is_ok());
}

/// The peers 1 and 2.
fn two_peers(transcript: &mut Transcript) -> PeerTable {
    let mut peers = PeerTable::new();
    add_peer(transcript, &mut peers, 1, true);
    add_peer(transcript, &mut peers, 2, false);
    peers
}

/// Adds a datagram to a peer.
fn add_datagram(transcript: &mut Transcript, offers: &mut List<Offer>, peer: u16, bytes: &[u8]) {
    let text = transcript.copy(bytes);
    let peer = Peer(peer);
    push(transcript, offers, Offer::To { peer, at: 7, text });
}

/// Adds a reply.
fn add_reply(transcript: &mut Transcript, offers: &mut List<Offer>, bytes: &[u8]) {
    let text = transcript.copy(bytes);
    push(transcript, offers, Offer::Web { at: 7, text });
}

/// Five outputs, of which one is to no peer of the table.
fn five_offers(transcript: &mut Transcript) -> List<Offer> {
    let mut offers = List::new();
    add_datagram(transcript, &mut offers, 1, b"one");
    add_reply(transcript, &mut offers, b"reply");
    add_datagram(transcript, &mut offers, 3, b"nobody");
    add_datagram(transcript, &mut offers, 2, b"two");
    add_datagram(transcript, &mut offers, 1, b"three");
    offers
}

/// A link whose third call fails.
fn failing_link(transcript: &mut Transcript) -> MemoryLink {
    let mut failing = List::new();
    let done = failing.push(transcript.alloc, 3);
    transcript.fail_unless(done.is_ok());
    MemoryLink::new(List::new(), failing)
}

/// Writes what was passed and to whom, followed by `!` where it was lost.
fn write_delivered(transcript: &mut Transcript, to: &[u8], text: &Text, lost: bool) {
    transcript.add(to);
    transcript.add(b" ");
    transcript.add(text.bytes());
    transcript.add_if(lost, b"!\n", b".\n");
}

/// The peer with this address.
fn whose(to: Addr) -> &'static [u8] {
    if to.is_same(addr(1)) {
        b"1"
    } else if to.is_same(addr(2)) {
        b"2"
    } else {
        b"?"
    }
}

/// Writes the outputs of the link: datagrams with the peer's number, and replies with `w`.
fn write_link(transcript: &mut Transcript, link: &MemoryLink) {
    for sent in link.offers() {
        write_delivered(transcript, whose(sent.to), &sent.text, sent.lost);
    }
    for replied in link.replies() {
        write_delivered(transcript, b"w", &replied.text, replied.lost);
    }
}

/// The third call of the link fails: that of the second peer's datagram.
const GIVEN: &[u8] = b"1 one.
2 two!
1 three.
w reply.
";

/// The number of the first of the five outputs that is passed otherwise; 0 where none is.
fn wrong_given(alloc: Global) -> usize {
    let mut transcript = Transcript::new(alloc);
    let peers = two_peers(&mut transcript);
    let offers = five_offers(&mut transcript);
    let mut link = failing_link(&mut transcript);
    let done = deliver_each(alloc, &peers, &mut link, offers.items());
    transcript.fail_unless(done.is_ok());
    write_link(&mut transcript, &link);
    drop(link);
    drop(offers);
    drop(peers);
    transcript.wrong_line(GIVEN)
}

#[test]
fn each_to_its_peer(rt: HostRuntime) {
    assert_right(&rt, "given", wrong_given(rt.alloc()));
}
