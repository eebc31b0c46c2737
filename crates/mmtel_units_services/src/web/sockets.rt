//! The link over the network, on loopback.

use crate::asserting::assert_right;
use crate::web::pages::add_shown;
use mmtel_link::{Arrival, Link};
use mmtel_sockets::NetLink;
use mmtel_test_tables::Transcript;
use mmtel_types::Addr;
use std::io;
use std::io::{Read, Write};
use std::net::{TcpStream, UdpSocket};

/// An address on loopback.
fn loopback(port: u16) -> Addr {
    Addr {
        ip: [127, 0, 0, 1],
        port,
    }
}

/// Adds a piece of what is read of the connection that was accepted: whether there may be more.
fn add_piece(transcript: &mut Transcript, link: &mut NetLink<'_>) -> bool {
    let mut buf = [0; 16];
    match link.web_read(&mut buf) {
        Ok(count) => {
            add_shown(transcript, &buf[..count]);
            count > 0
        }
        Err(_) => {
            transcript.add(b"failed");
            false
        }
    }
}

/// Adds what is read of the connection that was accepted, and replies.
fn add_web(transcript: &mut Transcript, link: &mut NetLink<'_>) {
    transcript.add(b"web ");
    for _ in 0..20 {
        if !add_piece(transcript, link) {
            break;
        }
    }
    let replied = link.web_reply(transcript.alloc, b"reply");
    transcript.fail_unless(replied.is_ok());
    transcript.add(b"\n");
}

/// Adds an event.
fn add_arrival(transcript: &mut Transcript, link: &mut NetLink<'_>, arrival: &Arrival) {
    match arrival {
        Arrival::Datagram { bytes, .. } => {
            transcript.add(b"datagram ");
            add_shown(transcript, bytes.bytes());
            transcript.add(b"\n");
        }
        Arrival::Web { .. } => add_web(transcript, link),
        Arrival::Quiet { .. } => transcript.add(b"nothing\n"),
        _ => transcript.fail(),
    }
}

/// Adds the event of one call, or that there is none.
fn add_turn(transcript: &mut Transcript, link: &mut NetLink<'_>) {
    match link.next(transcript.alloc) {
        Ok(arrival) => {
            add_arrival(transcript, link, &arrival);
            drop(arrival);
        }
        Err(_) => transcript.fail(),
    }
}

/// Adds the event, where there is one; whether there was.
fn is_added(transcript: &mut Transcript, link: &mut NetLink<'_>, arrival: &Arrival) -> bool {
    match arrival {
        Arrival::Quiet { .. } => false,
        other => {
            add_arrival(transcript, link, other);
            true
        }
    }
}

/// Adds the event of one call, where there is one; whether there was.
fn is_turn_added(transcript: &mut Transcript, link: &mut NetLink<'_>) -> bool {
    match link.next(transcript.alloc) {
        Ok(arrival) => {
            let added = is_added(transcript, link, &arrival);
            drop(arrival);
            added
        }
        Err(_) => {
            transcript.fail();
            true
        }
    }
}

/// Adds the next event, where there is one within some two seconds.
fn add_next(transcript: &mut Transcript, link: &mut NetLink<'_>) {
    for _ in 0..40 {
        if is_turn_added(transcript, link) {
            return;
        }
    }
    transcript.add(b"nothing\n");
}

/// Adds what is read of a connection.
fn add_read(transcript: &mut Transcript, stream: &TcpStream) {
    let mut by = stream;
    let mut buf = [0; 16];
    match by.read(&mut buf) {
        Ok(count) => add_shown(transcript, &buf[..count]),
        Err(_) => transcript.fail(),
    }
    transcript.add(b"\n");
}

/// Adds the reply that the other side of a connection gets.
fn add_reply(transcript: &mut Transcript, stream: &io::Result<TcpStream>) {
    match stream {
        Ok(stream) => add_read(transcript, stream),
        Err(_) => transcript.fail(),
    }
}

/// Sends a datagram from a socket.
fn send_from(socket: &UdpSocket, transcript: &mut Transcript, bytes: &[u8], to: &str) {
    let sent = socket.send_to(bytes, to);
    transcript.fail_unless(sent.is_ok());
    drop(sent);
}

/// Sends a datagram.
fn send(rt: &HostRuntime, transcript: &mut Transcript, bytes: &[u8], to: &str) {
    match UdpSocket::bind(rt, "127.0.0.1:0") {
        Ok(socket) => {
            send_from(&socket, transcript, bytes, to);
            drop(socket);
        }
        Err(error) => {
            drop(error);
            transcript.fail();
        }
    }
}

/// Writes these bytes to a connection.
fn write(transcript: &mut Transcript, stream: &TcpStream, bytes: &[u8]) {
    let mut by = stream;
    let written = by.write_all(bytes);
    transcript.fail_unless(written.is_ok());
    drop(written);
}

/// Writes these bytes to a connection, where there is one.
fn send_on(transcript: &mut Transcript, stream: &io::Result<TcpStream>, bytes: &[u8]) {
    match stream {
        Ok(stream) => write(transcript, stream, bytes),
        Err(_) => transcript.fail(),
    }
}

/// A connection to which these bytes were written.
fn connect(
    rt: &HostRuntime,
    transcript: &mut Transcript,
    bytes: &[u8],
    to: &str,
) -> io::Result<TcpStream> {
    let stream = TcpStream::connect(rt, to);
    send_on(transcript, &stream, bytes);
    stream
}

/// A link that is bound to these ports.
fn bound<'a>(rt: &'a HostRuntime, transcript: &mut Transcript, sip: u16, web: u16) -> NetLink<'a> {
    let mut link = NetLink::new(rt);
    let bound = link.bind(loopback(sip), loopback(web));
    transcript.fail_unless(bound.is_ok());
    link
}

/// The results of the sockets, the first ones to the fourth.
const SENT: &[u8] = b"datagram OPTIONS sip:a@b SIP/2.0%~
web GET /charges HTTP/1.1%~%~
reply
web GET /fast HTTP/1.1%~%~
datagram datagram
web GET /slow HT
reply
nothing
HTTP/1.1 100 Con
web PUT / HTTP/1.1%~expect: 100-Continue%~Content-Length: 4%~%~body
tinue%~%~reply
web PUT / HTTP/1.0%~expect: 100-continue%~Content-Length: 4%~%~
reply
";

/// A datagram and a request that were sent, and the reply.
fn one_of_each(rt: &HostRuntime, transcript: &mut Transcript) {
    let mut link = bound(rt, transcript, 45_071, 45_072);
    send(
        rt,
        transcript,
        b"OPTIONS sip:a@b SIP/2.0\r\n",
        "127.0.0.1:45071",
    );
    add_next(transcript, &mut link);
    let stream = connect(
        rt,
        transcript,
        b"GET /charges HTTP/1.1\r\n\r\n",
        "127.0.0.1:45072",
    );
    add_next(transcript, &mut link);
    add_reply(transcript, &stream);
    drop(stream);
    drop(link);
}

/// A client that sends a part of a request and no more, concurrently with one that sends a whole one, and a datagram.
fn slow_and_fast(rt: &HostRuntime, transcript: &mut Transcript) {
    let mut link = bound(rt, transcript, 45_073, 45_074);
    let slow = connect(rt, transcript, b"GET /slow HT", "127.0.0.1:45074");
    let fast = connect(
        rt,
        transcript,
        b"GET /fast HTTP/1.1\r\n\r\n",
        "127.0.0.1:45074",
    );
    add_next(transcript, &mut link);
    send(rt, transcript, b"datagram", "127.0.0.1:45073");
    add_next(transcript, &mut link);
    add_next(transcript, &mut link);
    add_reply(transcript, &slow);
    drop(fast);
    drop(slow);
    drop(link);
}

/// A client that sends its body after 100 (Continue).
fn told_to_go_on(rt: &HostRuntime, transcript: &mut Transcript) {
    let mut link = bound(rt, transcript, 45_075, 45_076);
    let head = b"PUT / HTTP/1.1\r\nexpect: 100-Continue\r\nContent-Length: 4\r\n\r\n";
    let stream = connect(rt, transcript, head, "127.0.0.1:45076");
    add_turn(transcript, &mut link);
    add_reply(transcript, &stream);
    send_on(transcript, &stream, b"body");
    add_next(transcript, &mut link);
    add_reply(transcript, &stream);
    drop(stream);
    drop(link);
}

/// A client of HTTP/1.0, to which nothing is sent before the reply.
fn not_told_to_go_on(rt: &HostRuntime, transcript: &mut Transcript) {
    let mut link = bound(rt, transcript, 45_077, 45_078);
    let head = b"PUT / HTTP/1.0\r\nexpect: 100-continue\r\nContent-Length: 4\r\n\r\n";
    let stream = connect(rt, transcript, head, "127.0.0.1:45078");
    add_next(transcript, &mut link);
    add_reply(transcript, &stream);
    drop(stream);
    drop(link);
}

fn wrong_sent(rt: &HostRuntime) -> usize {
    let mut transcript = Transcript::new(rt.alloc());
    one_of_each(rt, &mut transcript);
    slow_and_fast(rt, &mut transcript);
    told_to_go_on(rt, &mut transcript);
    not_told_to_go_on(rt, &mut transcript);
    let wrong = transcript.wrong_line(SENT);
    drop(transcript);
    wrong
}

#[test]
fn over_the_network(rt: HostRuntime) {
    assert_right(&rt, "sent", wrong_sent(&rt));
}
