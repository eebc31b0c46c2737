//! Steps of a server, running it over a link in memory, and which record is in force, and the contents of the keeper, where some of its calls fail.

use crate::asserting::assert_right;
use crate::cases::{two, writes, wrong_run};
use crate::pages::{Page, add_lines, add_short, is_well};
use mmtel_base::split_once_at;
use mmtel_test_tables::split_or_all;
use std::alloc::Global;

/// Parts of the first run are driven below.
const SERVED: &[u8] =
    br#"~ An opening, a web connection on which nothing came, a datagram of nobody, and nothing up to 500.
=server
=config:sip 127.0.0.1:5060;home home.example;peer 1 127.0.0.1:5071 trusted;peer 2 127.0.0.1:5072 untrusted;route home.example 1;route far.example 2;
=further:account 1 sip:alice@home.example tel:+4930111;account 2 sip:bob@home.example;operator sip:op@home.example;
=peer:peer 3 127.0.0.1:5073 untrusted;
at 0 peer 1|INVITE sip:bob@far.example SIP/2.0|Via: SIP/2.0/UDP 127.0.0.1:5071;branch=z9hG4bKa1|Max-Forwards: 68|From: "Erin" <sip:erin@other.example>;tag=a
|To: <sip:bob@far.example>|Call-ID: c1|CSeq: 7 INVITE|Contact: <sip:erin@127.0.0.1:5071>|P-Asserted-Identity: <sip:erin@other.example>|Privacy: id|Content-Length: 0|
at 200 web
at 300 peer 3|INVITE sip:bob@far.example SIP/2.0|Via: SIP/2.0/UDP 127.0.0.1:5071;branch=z9hG4bKa1|Max-Forwards: 68|From: "Erin" <sip:erin@other.example>;tag=a
|To: <sip:bob@far.example>|Call-ID: c1|CSeq: 7 INVITE|Contact: <sip:erin@127.0.0.1:5071>|P-Asserted-Identity: <sip:erin@other.example>|Privacy: id|Content-Length: 0|
at 500 quiet
~ The 100 and the INVITE, 400, and the INVITE again, which nobody answered.
at 0 to 1|SIP/2.0 100 Trying|Via: SIP/2.0/UDP 127.0.0.1:5071;branch=z9hG4bKa1|From: "Erin" <sip:erin@other.example>;tag=a|To: <sip:bob@far.example>|Call-ID: c1
|CSeq: 7 INVITE|Content-Length: 0|
at 0 to 2|INVITE sip:bob@far.example SIP/2.0|Via: SIP/2.0/UDP 127.0.0.1:5060;branch=z9hG4bK0123456789abcdef-4|Max-Forwards: 67
|From: "Anonymous" <sip:anonymous@anonymous.invalid>;tag=0123456789abcdef-3|To: <sip:bob@far.example>|Call-ID: 0123456789abcdef-2|CSeq: 1 INVITE
|Contact: <sip:127.0.0.1:5060>|Content-Length: 0|
at 200 web|HTTP/1.1 400 Bad Request|Content-Length: 0|Connection: close|
at 500 to 2|INVITE sip:bob@far.example SIP/2.0|Via: SIP/2.0/UDP 127.0.0.1:5060;branch=z9hG4bK0123456789abcdef-4|Max-Forwards: 67
|From: "Anonymous" <sip:anonymous@anonymous.invalid>;tag=0123456789abcdef-3|To: <sip:bob@far.example>|Call-ID: 0123456789abcdef-2|CSeq: 1 INVITE
|Contact: <sip:127.0.0.1:5060>|Content-Length: 0|
rows 0
~ A room is opened and its seat is left; the keeper does not take the row.
=server
=config:sip 127.0.0.1:5060;home home.example;peer 1 127.0.0.1:5071 trusted;route home.example 1;account 1 sip:alice@home.example;operator sip:op@home.example;
=further:mixer 127.0.0.1 40000;factory sip:conf@home.example;
=keeps:1
at 1000 peer 1|INVITE sip:conf@home.example SIP/2.0|Via: SIP/2.0/UDP 127.0.0.1:5071;branch=z9hG4bKc2|Max-Forwards: 68|From: "Alice" <sip:alice@home.example>;tag=t2
|To: <sip:conf@home.example>|Call-ID: call2|CSeq: 7 INVITE|Contact: <sip:alice@127.0.0.1:5071>|P-Asserted-Identity: <sip:alice@home.example>|Content-Type: application/sdp
|Content-Length: 123||v=0|o=- 1 1 IN IP4 127.0.0.1|s=-|c=IN IP4 127.0.0.1|t=0 0|m=audio 5004 RTP/AVP 8 0|a=rtpmap:8 PCMA/8000|a=sendrecv
at 1100 peer 1|ACK sip:room-1@127.0.0.1:5060 SIP/2.0|Via: SIP/2.0/UDP 127.0.0.1:5071;branch=z9hG4bKk2|Max-Forwards: 68|From: "Alice" <sip:alice@home.example>;tag=t2
|To: <sip:conf@home.example>;tag=0123456789abcdef-1|Call-ID: call2|CSeq: 7 ACK|Content-Length: 0|
at 4000 peer 1|BYE sip:room-1@127.0.0.1:5060 SIP/2.0|Via: SIP/2.0/UDP 127.0.0.1:5071;branch=z9hG4bKy2|Max-Forwards: 68|From: "Alice" <sip:alice@home.example>;tag=t2
|To: <sip:conf@home.example>;tag=0123456789abcdef-1|Call-ID: call2|CSeq: 9 BYE|Content-Length: 0|
~ The 200 of the room, with what its mixer takes, and the 200 of the BYE (RFC 4579 section 5.4); the row waits.
at 1000 to 1|SIP/2.0 200 OK|Via: SIP/2.0/UDP 127.0.0.1:5071;branch=z9hG4bKc2|From: "Alice" <sip:alice@home.example>;tag=t2
|To: <sip:conf@home.example>;tag=0123456789abcdef-1|Call-ID: call2|CSeq: 7 INVITE|Contact: <sip:room-1@127.0.0.1:5060>;isfocus|Content-Type: application/sdp
|Content-Length: 126||v=0|o=mixer 1 1 IN IP4 127.0.0.1|s=-|c=IN IP4 127.0.0.1|t=0 0|m=audio 40000 RTP/AVP 8|a=rtpmap:8 PCMA/8000|a=sendrecv
at 4000 to 1|SIP/2.0 200 OK|Via: SIP/2.0/UDP 127.0.0.1:5071;branch=z9hG4bKy2|From: "Alice" <sip:alice@home.example>;tag=t2
|To: <sip:conf@home.example>;tag=0123456789abcdef-1|Call-ID: call2|CSeq: 9 BYE|Content-Length: 0|
rows 1
~ A request that takes two reads.
=server
=config:sip 127.0.0.1:5060;home home.example;peer 1 127.0.0.1:5071 trusted;peer 2 127.0.0.1:5072 untrusted;route home.example 1;route far.example 2;
=further:account 1 sip:alice@home.example tel:+4930111;account 2 sip:bob@home.example;operator sip:op@home.example;
=turns:9
at 0 web|PUT /simservs/2 HTTP/1.1|X-Padding: {4096*a}|X-3GPP-Asserted-Identity: "sip:bob@home.example"|Content-Type: application/toml|Content-Length: 38|
x5b636f6d6d756e69636174696f6e2d77616974696e675d0a616374697665203d20747275650a
~ It is kept.
closed 1
at 0 web|HTTP/1.1 200 OK|Content-Length: 0|Connection: close|
rows 0
kept 2
[communication-waiting]
active = true
~ The first of the reads fails.
=server
=config:sip 127.0.0.1:5060;home home.example;peer 1 127.0.0.1:5071 trusted;peer 2 127.0.0.1:5072 untrusted;route home.example 1;route far.example 2;
=further:account 1 sip:alice@home.example tel:+4930111;account 2 sip:bob@home.example;operator sip:op@home.example;
=turns:9
=link:2
at 0 web|PUT /simservs/2 HTTP/1.1|X-Padding: {4096*a}|X-3GPP-Asserted-Identity: "sip:bob@home.example"|Content-Type: application/toml|Content-Length: 38|
x5b636f6d6d756e69636174696f6e2d77616974696e675d0a616374697665203d20747275650a
~ 400.
closed 1
at 0 web|HTTP/1.1 400 Bad Request|Content-Length: 0|Connection: close|
rows 0
~ The second fails.
=server
=config:sip 127.0.0.1:5060;home home.example;peer 1 127.0.0.1:5071 trusted;peer 2 127.0.0.1:5072 untrusted;route home.example 1;route far.example 2;
=further:account 1 sip:alice@home.example tel:+4930111;account 2 sip:bob@home.example;operator sip:op@home.example;
=turns:9
=link:3
at 0 web|PUT /simservs/2 HTTP/1.1|X-Padding: {4096*a}|X-3GPP-Asserted-Identity: "sip:bob@home.example"|Content-Type: application/toml|Content-Length: 38|
x5b636f6d6d756e69636174696f6e2d77616974696e675d0a616374697665203d20747275650a
~ 400.
closed 1
at 0 web|HTTP/1.1 400 Bad Request|Content-Length: 0|Connection: close|
rows 0
~ Requests of bob, alice, somebody without account and the operator.
=server
=config:sip 127.0.0.1:5060;home home.example;peer 1 127.0.0.1:5071 trusted;peer 2 127.0.0.1:5072 untrusted;route home.example 1;route far.example 2;
=further:account 1 sip:alice@home.example tel:+4930111;account 2 sip:bob@home.example;operator sip:op@home.example;
=keeps:2 3 8
at 0 web|GET /simservs/2 HTTP/1.1|X-3GPP-Asserted-Identity: "sip:bob@home.example"|
at 1 web|PUT /simservs/2 HTTP/1.1|X-3GPP-Asserted-Identity: "sip:bob@home.example"|Content-Type: application/toml|Content-Length: 40||[communication-waiting]
|active = true
at 2 web|GET /simservs/2 HTTP/1.1|X-3GPP-Asserted-Identity: "sip:bob@home.example"|
at 3 web|PUT /simservs/2 HTTP/1.1|X-3GPP-Asserted-Identity: "sip:bob@home.example"|Content-Type: application/toml|Content-Length: 36||[communication-waiting]|calls = 3
at 4 web|GET /simservs/2 HTTP/1.1|X-3GPP-Asserted-Identity: "sip:bob@home.example"|
at 5 web|PUT /simservs/2 HTTP/1.1|X-3GPP-Asserted-Identity: "tel:+4930111"|Content-Type: application/toml|Content-Length: 36||[communication-waiting]|calls = 3
at 6 web|PUT /simservs/2 HTTP/1.1|X-3GPP-Asserted-Identity: "sip:eve@other.example"|Content-Type: application/toml|Content-Length: 36||[communication-waiting]|calls = 3
at 7 web|PUT /simservs/2 HTTP/1.1|X-3GPP-Asserted-Identity: "sip:bob@home.example"|Content-Type: application/toml|Content-Length: 24||[communication-waitin]
at 8 web|PUT /simservs/2 HTTP/1.1|X-3GPP-Asserted-Identity: "sip:bob@home.example"|Content-Type: text/plain|Content-Length: 36||[communication-waiting]|calls = 3
at 9 web|PUT /simservs/3 HTTP/1.1|X-3GPP-Asserted-Identity: "sip:bob@home.example"|Content-Type: application/toml|Content-Length: 36||[communication-waiting]|calls = 3
at 10 web|GET /simservs/2 HTTP/1.1|X-3GPP-Asserted-Identity: "sip:bob@home.example"|
at 11 web|DELETE /simservs/2 HTTP/1.1|X-3GPP-Asserted-Identity: "sip:bob@home.example"|
at 12 web|GET /simservs/2 HTTP/1.1|X-3GPP-Asserted-Identity: "sip:bob@home.example"|
at 13 web|DELETE /simservs/2 HTTP/1.1|X-3GPP-Asserted-Identity: "sip:bob@home.example"|
at 14 web|GET /simservs/2 HTTP/1.1|X-3GPP-Asserted-Identity: "sip:bob@home.example"|
at 15 web|PUT /simservs/2 HTTP/1.1|X-3GPP-Asserted-Identity: "sip:bob@home.example"|Content-Type: application/toml|Content-Length: 36||[communication-waiting]|calls = 3
at 16 web|PUT /simservs/1 HTTP/1.1|X-3GPP-Asserted-Identity: "tel:+4930111"|Content-Type: application/toml|Content-Length: 40||[communication-waiting]|active = true
at 17 web|GET /simservs/2 HTTP/1.1|X-3GPP-Asserted-Identity: "sip:bob@home.example"|
at 18 web|GET /charges HTTP/1.1|X-3GPP-Asserted-Identity: "sip:op@home.example"|
at 19 web|GET /charges HTTP/1.1|X-3GPP-Asserted-Identity: "sip:op@home.example"|
at 20 web|GET /charges HTTP/1.1|X-3GPP-Asserted-Identity: "sip:bob@home.example"|
~ An upload is answered 200 where it was kept, and is in force then; where the keeper failed 503, and the record before it stands. Nothing that is refused is kept.
at 0 web|HTTP/1.1 200 OK|Content-Length: 0|Connection: close|
at 1 web|HTTP/1.1 200 OK|Content-Length: 0|Connection: close|
at 2 web|HTTP/1.1 200 OK|Content-Type: application/toml|Content-Length: 40|Connection: close||[communication-waiting]|active = true
at 3 web|HTTP/1.1 503 Service Unavailable|Content-Length: 0|Connection: close|
at 4 web|HTTP/1.1 200 OK|Content-Type: application/toml|Content-Length: 40|Connection: close||[communication-waiting]|active = true
at 5 web|HTTP/1.1 403 Forbidden|Content-Length: 0|Connection: close|
at 6 web|HTTP/1.1 403 Forbidden|Content-Length: 0|Connection: close|
at 7 web|HTTP/1.1 409 Conflict|Content-Type: text/plain|Content-Length: 29|Connection: close|
x756e6b6e6f776e20636f6d6d756e69636174696f6e2d77616974696e0a
at 8 web|HTTP/1.1 415 Unsupported Media Type|Content-Length: 0|Connection: close|
at 9 web|HTTP/1.1 404 Not Found|Content-Length: 0|Connection: close|
at 10 web|HTTP/1.1 200 OK|Content-Type: application/toml|Content-Length: 40|Connection: close||[communication-waiting]|active = true
at 11 web|HTTP/1.1 503 Service Unavailable|Content-Length: 0|Connection: close|
at 12 web|HTTP/1.1 200 OK|Content-Type: application/toml|Content-Length: 40|Connection: close||[communication-waiting]|active = true
at 13 web|HTTP/1.1 200 OK|Content-Length: 0|Connection: close|
at 14 web|HTTP/1.1 200 OK|Content-Length: 0|Connection: close|
at 15 web|HTTP/1.1 200 OK|Content-Length: 0|Connection: close|
at 16 web|HTTP/1.1 200 OK|Content-Length: 0|Connection: close|
at 17 web|HTTP/1.1 200 OK|Content-Type: application/toml|Content-Length: 36|Connection: close||[communication-waiting]|calls = 3
at 18 web|HTTP/1.1 200 OK|Content-Type: text/csv|Content-Length: 58|Connection: close|
x6b696e642c6163636f756e742c63616c6c2c626567616e2c616e7377657265642c656e6465642c686f6c64732c63617573652c7374617475730a
at 19 web|HTTP/1.1 503 Service Unavailable|Content-Length: 0|Connection: close|
at 20 web|HTTP/1.1 403 Forbidden|Content-Length: 0|Connection: close|
rows 0
kept 2
[communication-waiting]^
calls = 3^
kept 1
[communication-waiting]^
active = true^
~ Requests over records that were loaded; the keeper's first call fails.
=server
=config:sip 127.0.0.1:5060;home home.example;peer 1 127.0.0.1:5071 trusted;peer 2 127.0.0.1:5072 untrusted;route home.example 1;route far.example 2;
=further:account 1 sip:alice@home.example tel:+4930111;account 2 sip:bob@home.example;operator sip:op@home.example;
=keeps:1
=record:2 [communication-waiting]^;calls = 3^;
=record:1 is no record^;
=record:2 [communication-waiting]^;active = true^;
at 0 web|GET /simservs/1 HTTP/1.1|X-3GPP-Asserted-Identity: "tel:+4930111"|
at 1 web|GET /simservs/2 HTTP/1.1|X-3GPP-Asserted-Identity: "sip:bob@home.example"|
at 2 web|PUT /simservs/1 HTTP/1.1|X-3GPP-Asserted-Identity: "tel:+4930111"|Content-Type: application/toml|Content-Length: 36||[communication-waiting]|calls = 3
at 3 web|GET /simservs/1 HTTP/1.1|X-3GPP-Asserted-Identity: "tel:+4930111"|
at 4 web|PUT /simservs/1 HTTP/1.1|X-3GPP-Asserted-Identity: "tel:+4930111"|Content-Type: application/toml|Content-Length: 36||[communication-waiting]|calls = 3
at 5 web|GET /simservs/1 HTTP/1.1|X-3GPP-Asserted-Identity: "tel:+4930111"|
at 6 web|GET /simservs/2 HTTP/1.1|X-3GPP-Asserted-Identity: "sip:bob@home.example"|
~ Of the texts that were loaded for an account the last one is in force, and one that is no record is told as it is, until an upload was kept.
at 0 web|HTTP/1.1 200 OK|Content-Type: application/toml|Content-Length: 14|Connection: close||is no record
at 1 web|HTTP/1.1 200 OK|Content-Type: application/toml|Content-Length: 40|Connection: close||[communication-waiting]|active = true
at 2 web|HTTP/1.1 503 Service Unavailable|Content-Length: 0|Connection: close|
at 3 web|HTTP/1.1 200 OK|Content-Type: application/toml|Content-Length: 14|Connection: close||is no record
at 4 web|HTTP/1.1 200 OK|Content-Length: 0|Connection: close|
at 5 web|HTTP/1.1 200 OK|Content-Type: application/toml|Content-Length: 36|Connection: close||[communication-waiting]|calls = 3
at 6 web|HTTP/1.1 200 OK|Content-Type: application/toml|Content-Length: 40|Connection: close||[communication-waiting]|active = true
rows 0
kept 1
[communication-waiting]^
calls = 3^
~ Registrations by the core, one of them heard again, and one by a peer that is not trusted.
=server
=config:sip 127.0.0.1:5060;home home.example;peer 1 127.0.0.1:5071 trusted;peer 2 127.0.0.1:5072 untrusted;route home.example 1;route far.example 2;
=further:account 1 sip:alice@home.example tel:+4930111;account 2 sip:bob@home.example;operator sip:op@home.example;
at 0 peer 1|REGISTER sip:home.example SIP/2.0|Via: SIP/2.0/UDP 127.0.0.1:5071;branch=z9hG4bKr1|Max-Forwards: 70|From: <sip:core@home.example>;tag=r
|To: <sip:bob@home.example>|Call-ID: c1|CSeq: 1 REGISTER|Expires: 0|Content-Length: 0|
at 1000 peer 1|REGISTER sip:home.example SIP/2.0|Via: SIP/2.0/UDP 127.0.0.1:5071;branch=z9hG4bKr1|Max-Forwards: 70|From: <sip:core@home.example>;tag=r
|To: <sip:bob@home.example>|Call-ID: c1|CSeq: 1 REGISTER|Expires: 0|Content-Length: 0|
at 1100 peer 2|REGISTER sip:home.example SIP/2.0|Via: SIP/2.0/UDP 127.0.0.1:5072;branch=z9hG4bKr2|Max-Forwards: 70|From: <sip:core@home.example>;tag=r
|To: <sip:bob@home.example>|Call-ID: c2|CSeq: 1 REGISTER|Expires: 0|Content-Length: 0|
at 1200 peer 1|REGISTER sip:home.example SIP/2.0|Via: SIP/2.0/UDP 127.0.0.1:5071;branch=z9hG4bKr3|Max-Forwards: 70|From: <sip:core@home.example>;tag=r
|To: <sip:nobody@home.example>|Call-ID: c3|CSeq: 1 REGISTER|Content-Length: 0|
at 1300 peer 1|REGISTER sip:home.example SIP/2.0|Via: SIP/2.0/UDP 127.0.0.1:5071;branch=z9hG4bKr4|Max-Forwards: 70|From: <sip:core@home.example>;tag=r|To: <tel:+4930111>
|Call-ID: c4|CSeq: 1 REGISTER|Content-Length: 0|
at 1400 peer 1|REGISTER sip:home.example SIP/2.0|Via: SIP/2.0/UDP 127.0.0.1:5071;branch=z9hG4bKr5|Max-Forwards: 70|From: <sip:core@home.example>;tag=r
|To: <sip:bob@home.example>|Call-ID: c5|CSeq: 1 REGISTER|Expires: 4294967295|Content-Length: 0|
at 1500 peer 1|REGISTER sip:home.example SIP/2.0|Via: SIP/2.0/UDP 127.0.0.1:5071;branch=z9hG4bKr6|Max-Forwards: 70|From: <sip:core@home.example>;tag=r
|To: <sip:alice@home.example>|Call-ID: c6|CSeq: 1 REGISTER|Expires: soon|Content-Length: 0|
~ They are answered.
at 0 to 1|SIP/2.0 200 OK|Via: SIP/2.0/UDP 127.0.0.1:5071;branch=z9hG4bKr1|From: <sip:core@home.example>;tag=r|To: <sip:bob@home.example>;tag=0123456789abcdef-1
|Call-ID: c1|CSeq: 1 REGISTER|Content-Length: 0|
at 1000 to 1|SIP/2.0 200 OK|Via: SIP/2.0/UDP 127.0.0.1:5071;branch=z9hG4bKr1|From: <sip:core@home.example>;tag=r|To: <sip:bob@home.example>;tag=0123456789abcdef-1
|Call-ID: c1|CSeq: 1 REGISTER|Content-Length: 0|
at 1100 to 2|SIP/2.0 403 Forbidden|Via: SIP/2.0/UDP 127.0.0.1:5072;branch=z9hG4bKr2|From: <sip:core@home.example>;tag=r|To: <sip:bob@home.example>;tag=0123456789abcdef-2
|Call-ID: c2|CSeq: 1 REGISTER|Content-Length: 0|
at 1200 to 1|SIP/2.0 404 Not Found|Via: SIP/2.0/UDP 127.0.0.1:5071;branch=z9hG4bKr3|From: <sip:core@home.example>;tag=r
|To: <sip:nobody@home.example>;tag=0123456789abcdef-3|Call-ID: c3|CSeq: 1 REGISTER|Content-Length: 0|
at 1300 to 1|SIP/2.0 200 OK|Via: SIP/2.0/UDP 127.0.0.1:5071;branch=z9hG4bKr4|From: <sip:core@home.example>;tag=r|To: <tel:+4930111>;tag=0123456789abcdef-4|Call-ID: c4
|CSeq: 1 REGISTER|Content-Length: 0|
at 1400 to 1|SIP/2.0 200 OK|Via: SIP/2.0/UDP 127.0.0.1:5071;branch=z9hG4bKr5|From: <sip:core@home.example>;tag=r|To: <sip:bob@home.example>;tag=0123456789abcdef-5
|Call-ID: c5|CSeq: 1 REGISTER|Content-Length: 0|
at 1500 to 1|SIP/2.0 200 OK|Via: SIP/2.0/UDP 127.0.0.1:5071;branch=z9hG4bKr6|From: <sip:core@home.example>;tag=r|To: <sip:alice@home.example>;tag=0123456789abcdef-6
|Call-ID: c6|CSeq: 1 REGISTER|Content-Length: 0|
rows 0
"#;

/// The table, for several tests.
fn served_runs() -> &'static [u8] {
    SERVED
}

#[test]
fn served(rt: HostRuntime) {
    assert_right(&rt, "SERVED", wrong_run(rt.alloc(), served_runs()));
}

/// The numbers of the link's calls that fail, for how many turns the server is driven each time, and how each ends: with how many outputs.
const PARTS: &[u8] = b"|5|closed 4;
|100 1 0|closed 4;closed 4;open 4;
|4 1|open 4;closed 4;
|0 1 2 1|open 0;open 2;open 3;open 4;
1|9 9|fault 0;closed 4;
1 2 3|1 9 9 9|fault 0;fault 0;fault 0;closed 4;
3|9|closed 4;
4|9 9|fault 3;closed 4;
6|4 9 9|open 4;fault 4;closed 4;
";

/// The numbers of the link's calls that fail, for how many turns it is served, how that ends, and the outputs of the link. Call 5 reads the web connection, and calls 2, 3, 6 and 9
/// are for output.
const GIVEN: &[u8] =
    b"|9|closed;5071 SIP/2.0 100 Trying;5072 INVITE sip:bob@far.example SIP/2.0;5072 INVITE sip:bob@far.example SIP/2.0;HTTP/1.1 400 Bad Request;rows 0;
|1|open;5071 SIP/2.0 100 Trying;5072 INVITE sip:bob@far.example SIP/2.0;rows 0;
|0|open;rows 0;
1|9|fault;rows 0;
4|9|fault;5071 SIP/2.0 100 Trying;5072 INVITE sip:bob@far.example SIP/2.0;rows 0;
3 5 6|9|closed;5071 SIP/2.0 100 Trying;5072 lost INVITE sip:bob@far.example SIP/2.0;5072 INVITE sip:bob@far.example SIP/2.0;lost HTTP/1.1 400 Bad Request;rows 0;
";

/// Whether it ends as a row says where that is added before the script, and then all of this is written.
fn is_right(alloc: Global, set: &[u8], script: &[u8], listing: &[u8], row: &[u8]) -> bool {
    let (link, rest) = split_or_all(b'|', row);
    let (turns, ends) = split_or_all(b'|', rest);
    let mut case = Page::new(alloc);
    case.add(b"=link:");
    case.add(link);
    case.add(b"\n");
    case.add(set);
    case.add(turns);
    case.add(b"\n");
    case.add(script);
    let mut due = Page::new(alloc);
    add_short(&mut due, ends);
    add_lines(&mut due, listing);
    let right = writes(alloc, case.bytes(), due.bytes());
    let well = is_well(case);
    is_well(due) && well && right
}

/// The number of the first row of a table that is wrong, from 1; 0 where none is, of a hundred at most.
fn wrong_part(alloc: Global, set: &[u8], script: &[u8], listing: &[u8], table: &[u8]) -> usize {
    let mut rest = table;
    for number in 0..100 {
        match split_once_at(b'\n', rest) {
            None => return 0,
            Some((row, later)) => {
                if !is_right(alloc, set, script, listing, row) {
                    return number + 1;
                }
                rest = later;
            }
        }
    }
    100
}

/// A link whose first call fails, or a later one; turns that end before the link is closed; a link that is closed, again and again. Call 3 reads the web connection: its failure
/// ends the connection alone.
#[test]
fn parts_of_a_run(rt: HostRuntime) {
    let (script, listing, _) = two(served_runs()).unwrap_or((b"", b"", b""));
    assert_right(
        &rt,
        "PARTS",
        wrong_part(rt.alloc(), b"=turns:", script, listing, PARTS),
    );
}

/// A link that is closed; turns that end before that; a link whose first call fails, or the one after an event; one that loses a datagram and a reply.
#[test]
fn what_a_link_is_given(rt: HostRuntime) {
    let (script, _, _) = two(served_runs()).unwrap_or((b"", b"", b""));
    assert_right(
        &rt,
        "GIVEN",
        wrong_part(rt.alloc(), b"=serve:", script, b"", GIVEN),
    );
}
