//! Serving by the top function: a link in memory, over which a script comes, and its outputs; and the contents of the keeper after a run.

use crate::asserting::assert_right;
use crate::cases::wrong_run;

/// The link is bound by its first call; each event takes one call, reading a web connection one more, and each datagram or reply that is passed to it one.
const SERVES: &[u8] =
    br#"~ Erin calls bob, and asks that her identity be kept private (RFC 3323 section 4.1); then the link is closed.
=words:serve|server.cfg|--token|0123456789abcdef|--turns|9
=link:
=whole
at 0 peer 1|INVITE sip:bob@far.example SIP/2.0|Via: SIP/2.0/UDP 127.0.0.1:5071;branch=z9hG4bKa1|Max-Forwards: 68|From: "Erin" <sip:erin@other.example>;tag=a
|To: <sip:bob@far.example>|Call-ID: c1|CSeq: 7 INVITE|Contact: <sip:erin@127.0.0.1:5071>|P-Asserted-Identity: <sip:erin@other.example>|Privacy: id|Content-Length: 0|
~ The 100 is sent to her peer, and the INVITE to his; nothing is written.
5071 SIP/2.0 100 Trying|Via: SIP/2.0/UDP 127.0.0.1:5071;branch=z9hG4bKa1|From: "Erin" <sip:erin@other.example>;tag=a|To: <sip:bob@far.example>|Call-ID: c1
|CSeq: 7 INVITE|Content-Length: 0|
5072 INVITE sip:bob@far.example SIP/2.0|Via: SIP/2.0/UDP 127.0.0.1:5060;branch=z9hG4bK0123456789abcdef-4|Max-Forwards: 67
|From: "Anonymous" <sip:anonymous@anonymous.invalid>;tag=0123456789abcdef-3|To: <sip:bob@far.example>|Call-ID: 0123456789abcdef-2|CSeq: 1 INVITE
|Contact: <sip:127.0.0.1:5060>|Content-Length: 0|
~ Frank calls bob, in place of Erin.
=words:serve|server.cfg|--token|0123456789abcdef|--turns|9
=link:
=whole
at 0 peer 1|INVITE sip:bob@far.example SIP/2.0|Via: SIP/2.0/UDP 127.0.0.1:5071;branch=z9hG4bKa1|Max-Forwards: 68|From: "Frank" <sip:frank@other.example>;tag=a
|To: <sip:bob@far.example>|Call-ID: c1|CSeq: 7 INVITE|Contact: <sip:frank@127.0.0.1:5071>|P-Asserted-Identity: <sip:frank@other.example>|Privacy: id|Content-Length: 0|
~ The 100 names him, and what the peer that is not trusted is sent is as Erin's, byte for byte.
5071 SIP/2.0 100 Trying|Via: SIP/2.0/UDP 127.0.0.1:5071;branch=z9hG4bKa1|From: "Frank" <sip:frank@other.example>;tag=a|To: <sip:bob@far.example>|Call-ID: c1
|CSeq: 7 INVITE|Content-Length: 0|
5072 INVITE sip:bob@far.example SIP/2.0|Via: SIP/2.0/UDP 127.0.0.1:5060;branch=z9hG4bK0123456789abcdef-4|Max-Forwards: 67
|From: "Anonymous" <sip:anonymous@anonymous.invalid>;tag=0123456789abcdef-3|To: <sip:bob@far.example>|Call-ID: 0123456789abcdef-2|CSeq: 1 INVITE
|Contact: <sip:127.0.0.1:5060>|Content-Length: 0|
~ Another token.
=words:serve|server.cfg|--token|ffffffffffffffff|--turns|1
=link:
=whole
at 0 peer 1|INVITE sip:bob@far.example SIP/2.0|Via: SIP/2.0/UDP 127.0.0.1:5071;branch=z9hG4bKa1|Max-Forwards: 68|From: "Erin" <sip:erin@other.example>;tag=a
|To: <sip:bob@far.example>|Call-ID: c1|CSeq: 7 INVITE|Contact: <sip:erin@127.0.0.1:5071>|P-Asserted-Identity: <sip:erin@other.example>|Privacy: id|Content-Length: 0|
~ It stands in each identifier that the server draws.
5071 SIP/2.0 100 Trying|Via: SIP/2.0/UDP 127.0.0.1:5071;branch=z9hG4bKa1|From: "Erin" <sip:erin@other.example>;tag=a|To: <sip:bob@far.example>|Call-ID: c1
|CSeq: 7 INVITE|Content-Length: 0|
5072 INVITE sip:bob@far.example SIP/2.0|Via: SIP/2.0/UDP 127.0.0.1:5060;branch=z9hG4bKffffffffffffffff-4|Max-Forwards: 67
|From: "Anonymous" <sip:anonymous@anonymous.invalid>;tag=ffffffffffffffff-3|To: <sip:bob@far.example>|Call-ID: ffffffffffffffff-2|CSeq: 1 INVITE
|Contact: <sip:127.0.0.1:5060>|Content-Length: 0|
~ Bob uploads a record, reads it, and deletes it; eve uploads one for him, and he one that is none; the operator reads the charges.
=words:serve|server.cfg|--token|0123456789abcdef|--turns|100
=link:
=whole
at 0 web|PUT /simservs/2 HTTP/1.1|X-3GPP-Asserted-Identity: "sip:bob@home.example"|Content-Type: application/toml|Content-Length: 38|
x5b636f6d6d756e69636174696f6e2d77616974696e675d0a616374697665203d20747275650a
at 1 web|GET /simservs/2 HTTP/1.1|X-3GPP-Asserted-Identity: "sip:bob@home.example"|
at 2 web|PUT /simservs/2 HTTP/1.1|X-3GPP-Asserted-Identity: "sip:eve@other.example"|Content-Type: application/toml|Content-Length: 38|
x5b636f6d6d756e69636174696f6e2d77616974696e675d0a616374697665203d20747275650a
at 3 web|PUT /simservs/2 HTTP/1.1|X-3GPP-Asserted-Identity: "sip:bob@home.example"|Content-Type: application/toml|Content-Length: 37|
x5b636f6d6d756e69636174696f6e2d77616974696e5d0a616374697665203d20747275650a
at 4 web|DELETE /simservs/2 HTTP/1.1|X-3GPP-Asserted-Identity: "sip:bob@home.example"|
at 5 web|GET /simservs/2 HTTP/1.1|X-3GPP-Asserted-Identity: "sip:bob@home.example"|
at 6 web|GET /charges HTTP/1.1|X-3GPP-Asserted-Identity: "sip:op@home.example"|
~ Each is answered on its connection, in this order.
HTTP/1.1 200 OK|Content-Length: 0|Connection: close|
HTTP/1.1 200 OK|Content-Type: application/toml|Content-Length: 38|Connection: close||[communication-waiting]|active = true
HTTP/1.1 403 Forbidden|Content-Length: 0|Connection: close|
HTTP/1.1 409 Conflict|Content-Type: text/plain|Content-Length: 29|Connection: close||unknown communication-waitin
HTTP/1.1 200 OK|Content-Length: 0|Connection: close|
HTTP/1.1 200 OK|Content-Length: 0|Connection: close|
HTTP/1.1 200 OK|Content-Type: text/csv|Content-Length: 58|Connection: close||kind,account,call,began,answered,ended,holds,cause,status
~ Nothing comes, and the link is closed at once.
=words:serve|server.cfg|--token|0123456789abcdef|--turns|1000000000
=link:
~ Nothing is given to it, and nothing is written.
~ An empty datagram, one of nobody, one that is cut short, and a web connection on which nothing comes.
=words:serve|server.cfg|--token|0123456789abcdef|--turns|9
=link:
=peer:peer 3 127.0.0.1:9 untrusted;
at 0 peer 2
at 1 peer 3|INVITE sip:bob@far.example SIP/2.0|Via: SIP/2.0/UDP 127.0.0.1:5071;branch=z9hG4bKa1|Max-Forwards: 68|From: "Erin" <sip:erin@other.example>;tag=a
|To: <sip:bob@far.example>|Call-ID: c1|CSeq: 7 INVITE|Contact: <sip:erin@127.0.0.1:5071>|P-Asserted-Identity: <sip:erin@other.example>|Privacy: id|Content-Length: 0|
at 2 peer 1|INVITE sip:bob@far.example SIP/2.0|Via: SIP/2.0/UDP 127.0.0.1:5071;branch=z9hG4bKa1
at 3 web
~ The connection alone is answered.
HTTP/1.1 400 Bad Request
~ Alice calls bob; then he uploads a record that diverts each call to a mailbox. A second server is served for one turn over the same store.
=words:serve|server.cfg|--token|0123456789abcdef|--turns|2
=then:serve|server.cfg|--token|0123456789abcdef|--turns|1
=link:
at 0 peer 1|INVITE sip:bob@home.example SIP/2.0|Via: SIP/2.0/UDP 127.0.0.1:5071;branch=z9hG4bKc1|Max-Forwards: 68|From: "Alice" <sip:alice@home.example>;tag=t1
|To: <sip:bob@home.example>|Call-ID: call1|CSeq: 7 INVITE|Contact: <sip:alice@127.0.0.1:5071>|P-Asserted-Identity: <sip:alice@home.example>|Content-Length: 0|
at 100 web|PUT /simservs/2 HTTP/1.1|X-3GPP-Asserted-Identity: "sip:bob@home.example"|Content-Type: application/toml|Content-Length: 65|
|[[communication-diversion.rule]]|target = "sip:vm@far.example"
~ His record was kept, and is in force from the load on (TS 24.604 section 4.5.2.6).
5071 SIP/2.0 100 Trying
5071 SIP/2.0 181 Call Is Being Forwarded
5072 INVITE sip:vm@far.example;cause=302 SIP/2.0
~ The same, and the keeper fails where the record is stored, its fourth call.
=words:serve|server.cfg|--token|0123456789abcdef|--turns|2
=then:serve|server.cfg|--token|0123456789abcdef|--turns|9
=link:
=keeps:4
at 0 peer 1|INVITE sip:bob@home.example SIP/2.0|Via: SIP/2.0/UDP 127.0.0.1:5071;branch=z9hG4bKc1|Max-Forwards: 68|From: "Alice" <sip:alice@home.example>;tag=t1
|To: <sip:bob@home.example>|Call-ID: call1|CSeq: 7 INVITE|Contact: <sip:alice@127.0.0.1:5071>|P-Asserted-Identity: <sip:alice@home.example>|Content-Length: 0|
at 100 web|PUT /simservs/2 HTTP/1.1|X-3GPP-Asserted-Identity: "sip:bob@home.example"|Content-Type: application/toml|Content-Length: 65|
|[[communication-diversion.rule]]|target = "sip:vm@far.example"
~ It was not kept, and is not in force; this time it is kept.
5071 SIP/2.0 100 Trying
5071 INVITE sip:bob@home.example SIP/2.0
HTTP/1.1 200 OK
~ The same, and the reply to the upload is lost, the link's seventh call.
=words:serve|server.cfg|--token|0123456789abcdef|--turns|2
=then:serve|server.cfg|--token|0123456789abcdef|--turns|1
=link:7
at 0 peer 1|INVITE sip:bob@home.example SIP/2.0|Via: SIP/2.0/UDP 127.0.0.1:5071;branch=z9hG4bKc1|Max-Forwards: 68|From: "Alice" <sip:alice@home.example>;tag=t1
|To: <sip:bob@home.example>|Call-ID: call1|CSeq: 7 INVITE|Contact: <sip:alice@127.0.0.1:5071>|P-Asserted-Identity: <sip:alice@home.example>|Content-Length: 0|
at 100 web|PUT /simservs/2 HTTP/1.1|X-3GPP-Asserted-Identity: "sip:bob@home.example"|Content-Type: application/toml|Content-Length: 65|
|[[communication-diversion.rule]]|target = "sip:vm@far.example"
~ The record was kept all the same.
5071 SIP/2.0 100 Trying
5071 SIP/2.0 181 Call Is Being Forwarded
5072 INVITE sip:vm@far.example;cause=302 SIP/2.0
~ The same, and the upload cannot be read, the link's sixth call, in the first run and in the second.
=words:serve|server.cfg|--token|0123456789abcdef|--turns|2
=then:serve|server.cfg|--token|0123456789abcdef|--turns|9
=link:6
at 0 peer 1|INVITE sip:bob@home.example SIP/2.0|Via: SIP/2.0/UDP 127.0.0.1:5071;branch=z9hG4bKc1|Max-Forwards: 68|From: "Alice" <sip:alice@home.example>;tag=t1
|To: <sip:bob@home.example>|Call-ID: call1|CSeq: 7 INVITE|Contact: <sip:alice@127.0.0.1:5071>|P-Asserted-Identity: <sip:alice@home.example>|Content-Length: 0|
at 100 web|PUT /simservs/2 HTTP/1.1|X-3GPP-Asserted-Identity: "sip:bob@home.example"|Content-Type: application/toml|Content-Length: 65|
|[[communication-diversion.rule]]|target = "sip:vm@far.example"
~ It is answered as one that was cut short (RFC 9112 section 8), and nothing is kept.
5071 SIP/2.0 100 Trying
5071 INVITE sip:bob@home.example SIP/2.0
HTTP/1.1 400 Bad Request
"#;

#[test]
fn serves(rt: HostRuntime) {
    assert_right(&rt, "SERVES", wrong_run(rt.alloc(), SERVES));
}
