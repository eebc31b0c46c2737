//! A configuration, and messages as they are received under it.

use crate::pages::Page;
use mmtel_compose::ReceivedMessage;
use mmtel_directory::{Directory, read_directory};
use mmtel_message::read;
use mmtel_test_tables::split_or_all;
use mmtel_types::{Addr, Peer};

/// The server's address.
pub const SIP: Addr = Addr {
    ip: [127, 0, 0, 1],
    port: 5060,
};

const CONFIGURATION: &[u8] = b"sip 127.0.0.1:5060
home home.example
peer 1 127.0.0.1:5071 trusted
peer 2 127.0.0.1:5072 untrusted
route home.example 1
route far.example 2
route 127.0.0.1 1
factory sip:conf@home.example
account 7 sip:bob@home.example
";

/// The configuration.
pub fn directory(page: &mut Page) -> Option<Directory> {
    let read = read_directory(page.alloc, CONFIGURATION);
    page.value_or_fail(read)
}

/// An address of the host itself.
pub fn address(port: u16) -> Addr {
    Addr {
        ip: [127, 0, 0, 1],
        port,
    }
}

/// The message of these bytes, received from peer 1, which is trusted or not.
pub fn received_message(page: &mut Page, bytes: &[u8], trusted: bool) -> Option<ReceivedMessage> {
    let message = read(page.alloc, bytes);
    let message = page.value_or_fail(message)?;
    Some(ReceivedMessage {
        peer: Peer(1),
        source: address(5071),
        trusted,
        message,
    })
}

/// Adds a request with this start line except its version, a To tag or none, and further header fields, each ended by `|`.
pub fn add_request(page: &mut Page, tagged: bool, start: &[u8], further: &[u8]) {
    let to: &[u8] = if tagged {
        b"\"Bob\" <sip:bob@home.example>;tag=b"
    } else {
        b"\"Bob\" <sip:bob@home.example>"
    };
    add_request_to(page, to, start, further);
}

/// The same with this To.
pub fn add_request_to(page: &mut Page, to: &[u8], start: &[u8], further: &[u8]) {
    add_request_with(page, to, start, further, b"");
}

/// The same with a body.
pub fn add_request_with(page: &mut Page, to: &[u8], start: &[u8], further: &[u8], body: &[u8]) {
    let (method, _) = split_or_all(b' ', start);
    page.add(start);
    page.add(
        b" SIP/2.0\r\nVia: SIP/2.0/UDP 127.0.0.1:5071;branch=z9hG4bKa1\r\nFrom: <sip:alice@home.example>;tag=a\r\nTo: ",
    );
    page.add(to);
    page.add(b"\r\nCall-ID: c1\r\nContact: <sip:alice@127.0.0.1:5071>\r\nCSeq: 7 ");
    page.add(method);
    page.add(b"\r\n");
    page.add_ended(b'|', further, b"\r\n");
    page.add(b"Content-Length: ");
    page.add_number(body.len() as u64);
    page.add(b"\r\n\r\n");
    page.add(body);
}
