//! Services of the parties of a call (3GPP TS 24.173): presentation and restriction, barring, diversion, waiting.
//!
//! Each is a script and its expected listing, in the form of `cases`. Records are comments before the bytes in which they are uploaded.

use crate::asserting::assert_right;
use crate::cases::wrong_run;

/// Presentation, restriction and barring; and no diversion where the configuration allows none.
const PRESENTED: &[u8] =
    br#"~ Alice's record restricts her identity unless she says otherwise, and she does (3GPP TS 24.607 section 4.5.2.4).
# [originating-identity-presentation-restriction]
# mode = "temporary"
# default-behaviour = "presentation-restricted"
at 0 web|PUT /simservs/1 HTTP/1.1|X-3GPP-Asserted-Identity: "sip:alice@home.example"|Content-Type: application/toml|Content-Length: 113|
x5b6f726967696e6174696e672d6964656e746974792d70726573656e746174696f6e2d7265737472696374696f6e5d0a6d6f6465203d202274656d706f72617279220a64656661756c742d626568617\
6696f7572203d202270726573656e746174696f6e2d72657374726963746564220a
at 0 peer 1|INVITE sip:bob@far.example SIP/2.0|Via: SIP/2.0/UDP 127.0.0.1:5071;branch=z9hG4bKc1|Max-Forwards: 68|From: "Alice" <sip:alice@home.example>;tag=t1
|To: <sip:bob@far.example>|Call-ID: call1|CSeq: 7 INVITE|Contact: <sip:alice@127.0.0.1:5071>|P-Asserted-Identity: <sip:alice@home.example>|Privacy: none|Content-Length: 0
|
~ Her name and her identity are shown.
at 0 web|HTTP/1.1 200 OK|Content-Length: 0|Connection: close|
at 0 to 1|SIP/2.0 100 Trying|Via: SIP/2.0/UDP 127.0.0.1:5071;branch=z9hG4bKc1|From: "Alice" <sip:alice@home.example>;tag=t1|To: <sip:bob@far.example>|Call-ID: call1
|CSeq: 7 INVITE|Content-Length: 0|
at 0 to 2|INVITE sip:bob@far.example SIP/2.0|Via: SIP/2.0/UDP 127.0.0.1:5060;branch=z9hG4bK0123456789abcdef-4|Max-Forwards: 67
|From: "Alice" <sip:alice@home.example>;tag=0123456789abcdef-3|To: <sip:bob@far.example>|Call-ID: 0123456789abcdef-2|CSeq: 1 INVITE|Contact: <sip:127.0.0.1:5060>
|P-Asserted-Identity: <sip:alice@home.example>|Content-Length: 0|
~ Her record restricts it for good.
# [originating-identity-presentation-restriction]
# mode = "permanent"
# default-behaviour = "presentation-restricted"
at 0 web|PUT /simservs/1 HTTP/1.1|X-3GPP-Asserted-Identity: "sip:alice@home.example"|Content-Type: application/toml|Content-Length: 113|
x5b6f726967696e6174696e672d6964656e746974792d70726573656e746174696f6e2d7265737472696374696f6e5d0a6d6f6465203d20227065726d616e656e74220a64656661756c742d626568617\
6696f7572203d202270726573656e746174696f6e2d72657374726963746564220a
at 0 peer 1|INVITE sip:bob@far.example SIP/2.0|Via: SIP/2.0/UDP 127.0.0.1:5071;branch=z9hG4bKc1|Max-Forwards: 68|From: "Alice" <sip:alice@home.example>;tag=t1
|To: <sip:bob@far.example>|Call-ID: call1|CSeq: 7 INVITE|Contact: <sip:alice@127.0.0.1:5071>|P-Asserted-Identity: <sip:alice@home.example>|Privacy: none|Content-Length: 0
|
~ She is anonymous.
at 0 web|HTTP/1.1 200 OK|Content-Length: 0|Connection: close|
at 0 to 1|SIP/2.0 100 Trying|Via: SIP/2.0/UDP 127.0.0.1:5071;branch=z9hG4bKc1|From: "Alice" <sip:alice@home.example>;tag=t1|To: <sip:bob@far.example>|Call-ID: call1
|CSeq: 7 INVITE|Content-Length: 0|
at 0 to 2|INVITE sip:bob@far.example SIP/2.0|Via: SIP/2.0/UDP 127.0.0.1:5060;branch=z9hG4bK0123456789abcdef-4|Max-Forwards: 67
|From: "Anonymous" <sip:anonymous@anonymous.invalid>;tag=0123456789abcdef-3|To: <sip:bob@far.example>|Call-ID: 0123456789abcdef-2|CSeq: 1 INVITE
|Contact: <sip:127.0.0.1:5060>|Content-Length: 0|
~ Bob bars everybody, and allows alice (3GPP TS 24.611 section 4.5.2.6).
# [incoming-communication-barring]
# [[incoming-communication-barring.rule]]
# many = "*"
# allow = false
# [[incoming-communication-barring.rule]]
# one = ["sip:alice@home.example"]
# allow = true
at 0 web|PUT /simservs/2 HTTP/1.1|X-3GPP-Asserted-Identity: "sip:bob@home.example"|Content-Type: application/toml|Content-Length: 184|
x5b696e636f6d696e672d636f6d6d756e69636174696f6e2d62617272696e675d0a5b5b696e636f6d696e672d636f6d6d756e69636174696f6e2d62617272696e672e72756c655d5d0a6d616e79203d2\
0222a220a616c6c6f77203d2066616c73650a5b5b696e636f6d696e672d636f6d6d756e69636174696f6e2d62617272696e672e72756c655d5d0a6f6e65203d205b227369703a616c69636540686f6d6\
52e6578616d706c65225d0a616c6c6f77203d20747275650a
at 0 peer 1|INVITE sip:bob@home.example SIP/2.0|Via: SIP/2.0/UDP 127.0.0.1:5071;branch=z9hG4bKc1|Max-Forwards: 68|From: "Alice" <sip:alice@home.example>;tag=t1
|To: <sip:bob@home.example>|Call-ID: call1|CSeq: 7 INVITE|Contact: <sip:alice@127.0.0.1:5071>|P-Asserted-Identity: <sip:alice@home.example>|Content-Length: 0|
~ She gets through.
at 0 web|HTTP/1.1 200 OK|Content-Length: 0|Connection: close|
at 0 to 1|SIP/2.0 100 Trying|Via: SIP/2.0/UDP 127.0.0.1:5071;branch=z9hG4bKc1|From: "Alice" <sip:alice@home.example>;tag=t1|To: <sip:bob@home.example>|Call-ID: call1
|CSeq: 7 INVITE|Content-Length: 0|
at 0 to 1|INVITE sip:bob@home.example SIP/2.0|Via: SIP/2.0/UDP 127.0.0.1:5060;branch=z9hG4bK0123456789abcdef-4|Max-Forwards: 67
|From: "Alice" <sip:alice@home.example>;tag=0123456789abcdef-3|To: <sip:bob@home.example>|Call-ID: 0123456789abcdef-2|CSeq: 1 INVITE|Contact: <sip:127.0.0.1:5060>
|P-Asserted-Identity: <sip:alice@home.example>|Content-Length: 0|
~ He bars everybody.
# [incoming-communication-barring]
# [[incoming-communication-barring.rule]]
# many = "*"
# allow = false
at 0 web|PUT /simservs/2 HTTP/1.1|X-3GPP-Asserted-Identity: "sip:bob@home.example"|Content-Type: application/toml|Content-Length: 98|
x5b696e636f6d696e672d636f6d6d756e69636174696f6e2d62617272696e675d0a5b5b696e636f6d696e672d636f6d6d756e69636174696f6e2d62617272696e672e72756c655d5d0a6d616e79203d2\
0222a220a616c6c6f77203d2066616c73650a
at 0 peer 1|INVITE sip:bob@home.example SIP/2.0|Via: SIP/2.0/UDP 127.0.0.1:5071;branch=z9hG4bKc1|Max-Forwards: 68|From: "Alice" <sip:alice@home.example>;tag=t1
|To: <sip:bob@home.example>|Call-ID: call1|CSeq: 7 INVITE|Contact: <sip:alice@127.0.0.1:5071>|P-Asserted-Identity: <sip:alice@home.example>|Content-Length: 0|
~ 603.
at 0 web|HTTP/1.1 200 OK|Content-Length: 0|Connection: close|
at 0 to 1|SIP/2.0 100 Trying|Via: SIP/2.0/UDP 127.0.0.1:5071;branch=z9hG4bKc1|From: "Alice" <sip:alice@home.example>;tag=t1|To: <sip:bob@home.example>|Call-ID: call1
|CSeq: 7 INVITE|Content-Length: 0|
at 0 to 1|SIP/2.0 603 Decline|Via: SIP/2.0/UDP 127.0.0.1:5071;branch=z9hG4bKc1|From: "Alice" <sip:alice@home.example>;tag=t1
|To: <sip:bob@home.example>;tag=0123456789abcdef-1|Call-ID: call1|CSeq: 7 INVITE|Content-Length: 0|
~ Bob rejects who is anonymous and diverts everybody; Erin asks for privacy.
# [communication-diversion]
# [[communication-diversion.rule]]
# target = "sip:vm@far.example"
# [incoming-communication-barring]
# reject-anonymous = true
at 0 web|PUT /simservs/2 HTTP/1.1|X-3GPP-Asserted-Identity: "sip:bob@home.example"|Content-Type: application/toml|Content-Length: 146|
x5b636f6d6d756e69636174696f6e2d646976657273696f6e5d0a5b5b636f6d6d756e69636174696f6e2d646976657273696f6e2e72756c655d5d0a746172676574203d20227369703a766d406661722\
e6578616d706c65220a5b696e636f6d696e672d636f6d6d756e69636174696f6e2d62617272696e675d0a72656a6563742d616e6f6e796d6f7573203d20747275650a
at 0 peer 1|INVITE sip:bob@home.example SIP/2.0|Via: SIP/2.0/UDP 127.0.0.1:5071;branch=z9hG4bKc1|Max-Forwards: 68|From: "Erin" <sip:erin@other.example>;tag=t1
|To: <sip:bob@home.example>|Call-ID: call1|CSeq: 7 INVITE|Contact: <sip:erin@127.0.0.1:5071>|P-Asserted-Identity: <sip:erin@other.example>|Privacy: id|Content-Length: 0|
~ 433, and no 181: the rejection comes first.
at 0 web|HTTP/1.1 200 OK|Content-Length: 0|Connection: close|
at 0 to 1|SIP/2.0 100 Trying|Via: SIP/2.0/UDP 127.0.0.1:5071;branch=z9hG4bKc1|From: "Erin" <sip:erin@other.example>;tag=t1|To: <sip:bob@home.example>|Call-ID: call1
|CSeq: 7 INVITE|Content-Length: 0|
at 0 to 1|SIP/2.0 433 Anonymity Disallowed|Via: SIP/2.0/UDP 127.0.0.1:5071;branch=z9hG4bKc1|From: "Erin" <sip:erin@other.example>;tag=t1
|To: <sip:bob@home.example>;tag=0123456789abcdef-1|Call-ID: call1|CSeq: 7 INVITE|Content-Length: 0|
~ He rejects who is anonymous; a peer that is not trusted asserts an identity and asks for privacy.
# [incoming-communication-barring]
# reject-anonymous = true
at 0 web|PUT /simservs/2 HTTP/1.1|X-3GPP-Asserted-Identity: "sip:bob@home.example"|Content-Type: application/toml|Content-Length: 57|
x5b696e636f6d696e672d636f6d6d756e69636174696f6e2d62617272696e675d0a72656a6563742d616e6f6e796d6f7573203d20747275650a
at 0 peer 2|INVITE sip:bob@home.example SIP/2.0|Via: SIP/2.0/UDP 127.0.0.1:5072;branch=z9hG4bKc1|Max-Forwards: 68|From: "Erin" <sip:erin@other.example>;tag=t1
|To: <sip:bob@home.example>|Call-ID: call1|CSeq: 7 INVITE|Contact: <sip:erin@127.0.0.1:5072>|P-Asserted-Identity: <sip:erin@other.example>|Privacy: id|Content-Length: 0|
~ It is not believed (RFC 3325 section 5), so the caller has no identity that could be withheld, and gets through without one.
at 0 web|HTTP/1.1 200 OK|Content-Length: 0|Connection: close|
at 0 to 2|SIP/2.0 100 Trying|Via: SIP/2.0/UDP 127.0.0.1:5072;branch=z9hG4bKc1|From: "Erin" <sip:erin@other.example>;tag=t1|To: <sip:bob@home.example>|Call-ID: call1
|CSeq: 7 INVITE|Content-Length: 0|
at 0 to 1|INVITE sip:bob@home.example SIP/2.0|Via: SIP/2.0/UDP 127.0.0.1:5060;branch=z9hG4bK0123456789abcdef-4|Max-Forwards: 67
|From: "Anonymous" <sip:anonymous@anonymous.invalid>;tag=0123456789abcdef-3|To: <sip:bob@home.example>|Call-ID: 0123456789abcdef-2|CSeq: 1 INVITE
|Contact: <sip:127.0.0.1:5060>|Privacy: id|Content-Length: 0|
~ The core asks for the services of the terminating user alone; the caller's record would restrict her for good.
# [originating-identity-presentation-restriction]
# mode = "permanent"
at 0 web|PUT /simservs/1 HTTP/1.1|X-3GPP-Asserted-Identity: "sip:alice@home.example"|Content-Type: application/toml|Content-Length: 67|
x5b6f726967696e6174696e672d6964656e746974792d70726573656e746174696f6e2d7265737472696374696f6e5d0a6d6f6465203d20227065726d616e656e74220a
at 1 peer 1|INVITE sip:bob@far.example SIP/2.0|Via: SIP/2.0/UDP 127.0.0.1:5071;branch=z9hG4bKt1|Max-Forwards: 70|From: "Alice" <sip:alice@home.example>;tag=a
|To: <sip:bob@far.example>|Call-ID: c1|CSeq: 1 INVITE|Contact: <sip:x@127.0.0.1:5071>|P-Asserted-Identity: <sip:alice@home.example>
|P-Served-User: <sip:bob@home.example>;sescase=term|Content-Length: 0|
at 2 peer 1|INVITE sip:bob@far.example SIP/2.0|Via: SIP/2.0/UDP 127.0.0.1:5071;branch=z9hG4bKt2|Max-Forwards: 70|From: "Alice" <sip:alice@home.example>;tag=b
|To: <sip:bob@far.example>|Call-ID: c2|CSeq: 1 INVITE|Contact: <sip:x@127.0.0.1:5071>|P-Asserted-Identity: <sip:alice@home.example>|Content-Length: 0|
~ It is not asked, and she is shown.
at 0 web|HTTP/1.1 200 OK|Content-Length: 0|Connection: close|
at 1 to 1|SIP/2.0 100 Trying|Via: SIP/2.0/UDP 127.0.0.1:5071;branch=z9hG4bKt1|From: "Alice" <sip:alice@home.example>;tag=a|To: <sip:bob@far.example>|Call-ID: c1
|CSeq: 1 INVITE|Content-Length: 0|
at 1 to 2|INVITE sip:bob@far.example SIP/2.0|Via: SIP/2.0/UDP 127.0.0.1:5060;branch=z9hG4bK0123456789abcdef-4|Max-Forwards: 69
|From: "Alice" <sip:alice@home.example>;tag=0123456789abcdef-3|To: <sip:bob@far.example>|Call-ID: 0123456789abcdef-2|CSeq: 1 INVITE|Contact: <sip:127.0.0.1:5060>
|P-Asserted-Identity: <sip:alice@home.example>|Content-Length: 0|
at 2 to 1|SIP/2.0 100 Trying|Via: SIP/2.0/UDP 127.0.0.1:5071;branch=z9hG4bKt2|From: "Alice" <sip:alice@home.example>;tag=b|To: <sip:bob@far.example>|Call-ID: c2
|CSeq: 1 INVITE|Content-Length: 0|
at 2 to 2|INVITE sip:bob@far.example SIP/2.0|Via: SIP/2.0/UDP 127.0.0.1:5060;branch=z9hG4bK0123456789abcdef-8|Max-Forwards: 69
|From: "Anonymous" <sip:anonymous@anonymous.invalid>;tag=0123456789abcdef-7|To: <sip:bob@far.example>|Call-ID: 0123456789abcdef-6|CSeq: 1 INVITE
|Contact: <sip:127.0.0.1:5060>|Content-Length: 0|
~ No diversion is allowed; bob diverts everybody.
=further:bound 0;
# [communication-diversion]
# [[communication-diversion.rule]]
# target = "sip:vm@far.example"
at 0 web|PUT /simservs/2 HTTP/1.1|X-3GPP-Asserted-Identity: "sip:bob@home.example"|Content-Type: application/toml|Content-Length: 89|
x5b636f6d6d756e69636174696f6e2d646976657273696f6e5d0a5b5b636f6d6d756e69636174696f6e2d646976657273696f6e2e72756c655d5d0a746172676574203d20227369703a766d406661722e6578616d706c65220a
at 0 peer 1|INVITE sip:bob@home.example SIP/2.0|Via: SIP/2.0/UDP 127.0.0.1:5071;branch=z9hG4bKc1|Max-Forwards: 68|From: "Alice" <sip:alice@home.example>;tag=t1
|To: <sip:bob@home.example>|Call-ID: call1|CSeq: 7 INVITE|Contact: <sip:alice@127.0.0.1:5071>|P-Asserted-Identity: <sip:alice@home.example>|Content-Length: 0|
~ 480.
at 0 web|HTTP/1.1 200 OK|Content-Length: 0|Connection: close|
at 0 to 1|SIP/2.0 100 Trying|Via: SIP/2.0/UDP 127.0.0.1:5071;branch=z9hG4bKc1|From: "Alice" <sip:alice@home.example>;tag=t1|To: <sip:bob@home.example>|Call-ID: call1
|CSeq: 7 INVITE|Content-Length: 0|
at 0 to 1|SIP/2.0 480 Temporarily Unavailable|Via: SIP/2.0/UDP 127.0.0.1:5071;branch=z9hG4bKc1|From: "Alice" <sip:alice@home.example>;tag=t1
|To: <sip:bob@home.example>;tag=0123456789abcdef-1|Call-ID: call1|CSeq: 7 INVITE|Content-Length: 0|
"#;

#[test]
fn presented_or_barred(rt: HostRuntime) {
    assert_right(&rt, "PRESENTED", wrong_run(rt.alloc(), PRESENTED));
}

/// Diversion and waiting.
const DIVERTED: &[u8] =
    br#"~ Bob diverts everybody to carol, who is in a call and diverts when busy (3GPP TS 24.604 section 4.5.2.6).
# [communication-diversion]
# [[communication-diversion.rule]]
# target = "sip:carol@home.example"
at 0 web|PUT /simservs/2 HTTP/1.1|X-3GPP-Asserted-Identity: "sip:bob@home.example"|Content-Type: application/toml|Content-Length: 93|
x5b636f6d6d756e69636174696f6e2d646976657273696f6e5d0a5b5b636f6d6d756e69636174696f6e2d646976657273696f6e2e72756c655d5d0a746172676574203d20227369703a6361726f6c406\
86f6d652e6578616d706c65220a
# [communication-diversion]
# [[communication-diversion.rule]]
# busy = true
# target = "sip:vm@far.example"
at 0 web|PUT /simservs/3 HTTP/1.1|X-3GPP-Asserted-Identity: "sip:carol@home.example"|Content-Type: application/toml|Content-Length: 101|
x5b636f6d6d756e69636174696f6e2d646976657273696f6e5d0a5b5b636f6d6d756e69636174696f6e2d646976657273696f6e2e72756c655d5d0a62757379203d20747275650a746172676574203d2\
0227369703a766d406661722e6578616d706c65220a
at 0 peer 1|INVITE sip:carol@home.example SIP/2.0|Via: SIP/2.0/UDP 127.0.0.1:5071;branch=z9hG4bKc1|Max-Forwards: 68|From: "Erin" <sip:erin@other.example>;tag=t1
|To: <sip:carol@home.example>|Call-ID: call1|CSeq: 7 INVITE|Contact: <sip:erin@127.0.0.1:5071>|P-Asserted-Identity: <sip:erin@other.example>|Content-Length: 0|
at 0 peer 1|INVITE sip:bob@home.example SIP/2.0|Via: SIP/2.0/UDP 127.0.0.1:5071;branch=z9hG4bKc2|Max-Forwards: 68|From: "Alice" <sip:alice@home.example>;tag=t2
|To: <sip:bob@home.example>|Call-ID: call2|CSeq: 7 INVITE|Contact: <sip:alice@127.0.0.1:5071>|P-Asserted-Identity: <sip:alice@home.example>|Content-Length: 0|
~ Two 181, and the INVITE to her target with the whole history (RFC 7044 section 10).
at 0 web|HTTP/1.1 200 OK|Content-Length: 0|Connection: close|
at 0 web|HTTP/1.1 200 OK|Content-Length: 0|Connection: close|
at 0 to 1|SIP/2.0 100 Trying|Via: SIP/2.0/UDP 127.0.0.1:5071;branch=z9hG4bKc1|From: "Erin" <sip:erin@other.example>;tag=t1|To: <sip:carol@home.example>|Call-ID: call1
|CSeq: 7 INVITE|Content-Length: 0|
at 0 to 1|INVITE sip:carol@home.example SIP/2.0|Via: SIP/2.0/UDP 127.0.0.1:5060;branch=z9hG4bK0123456789abcdef-4|Max-Forwards: 67
|From: "Erin" <sip:erin@other.example>;tag=0123456789abcdef-3|To: <sip:carol@home.example>|Call-ID: 0123456789abcdef-2|CSeq: 1 INVITE|Contact: <sip:127.0.0.1:5060>
|P-Asserted-Identity: <sip:erin@other.example>|Content-Length: 0|
at 0 to 1|SIP/2.0 100 Trying|Via: SIP/2.0/UDP 127.0.0.1:5071;branch=z9hG4bKc2|From: "Alice" <sip:alice@home.example>;tag=t2|To: <sip:bob@home.example>|Call-ID: call2
|CSeq: 7 INVITE|Content-Length: 0|
at 0 to 1|SIP/2.0 181 Call Is Being Forwarded|Via: SIP/2.0/UDP 127.0.0.1:5071;branch=z9hG4bKc2|From: "Alice" <sip:alice@home.example>;tag=t2
|To: <sip:bob@home.example>;tag=0123456789abcdef-5|Call-ID: call2|CSeq: 7 INVITE|Contact: <sip:127.0.0.1:5060>|History-Info: <sip:bob@home.example>;index=1
|History-Info: <sip:carol@home.example;cause=302>;index=1.1|Content-Length: 0|
at 0 to 1|SIP/2.0 181 Call Is Being Forwarded|Via: SIP/2.0/UDP 127.0.0.1:5071;branch=z9hG4bKc2|From: "Alice" <sip:alice@home.example>;tag=t2
|To: <sip:bob@home.example>;tag=0123456789abcdef-5|Call-ID: call2|CSeq: 7 INVITE|Contact: <sip:127.0.0.1:5060>|History-Info: <sip:bob@home.example>;index=1
|History-Info: <sip:carol@home.example;cause=302>;index=1.1|History-Info: <sip:vm@far.example;cause=486>;index=1.1.1|Content-Length: 0|
at 0 to 2|INVITE sip:vm@far.example;cause=486 SIP/2.0|Via: SIP/2.0/UDP 127.0.0.1:5060;branch=z9hG4bK0123456789abcdef-8|Max-Forwards: 67
|From: "Alice" <sip:alice@home.example>;tag=0123456789abcdef-7|To: <sip:vm@far.example>|Call-ID: 0123456789abcdef-6|CSeq: 1 INVITE|Contact: <sip:127.0.0.1:5060>
|P-Asserted-Identity: <sip:alice@home.example>|History-Info: <sip:bob@home.example>;index=1|History-Info: <sip:carol@home.example;cause=302>;index=1.1
|History-Info: <sip:vm@far.example;cause=486>;index=1.1.1|Content-Length: 0|
~ Bob diverts when he does not answer; while he rings his record is emptied.
# [communication-diversion]
# [[communication-diversion.rule]]
# no-answer = true
# target = "sip:vm@far.example"
at 0 web|PUT /simservs/2 HTTP/1.1|X-3GPP-Asserted-Identity: "sip:bob@home.example"|Content-Type: application/toml|Content-Length: 106|
x5b636f6d6d756e69636174696f6e2d646976657273696f6e5d0a5b5b636f6d6d756e69636174696f6e2d646976657273696f6e2e72756c655d5d0a6e6f2d616e73776572203d20747275650a7461726\
76574203d20227369703a766d406661722e6578616d706c65220a
at 0 peer 1|INVITE sip:bob@home.example SIP/2.0|Via: SIP/2.0/UDP 127.0.0.1:5071;branch=z9hG4bKc1|Max-Forwards: 68|From: "Alice" <sip:alice@home.example>;tag=t1
|To: <sip:bob@home.example>|Call-ID: call1|CSeq: 7 INVITE|Contact: <sip:alice@127.0.0.1:5071>|P-Asserted-Identity: <sip:alice@home.example>|Content-Length: 0|
at 100 peer 1|SIP/2.0 180 Ringing|Via: SIP/2.0/UDP 127.0.0.1:5060;branch=z9hG4bK0123456789abcdef-4|From: "Alice" <sip:alice@home.example>;tag=0123456789abcdef-3
|To: <sip:bob@home.example>;tag=bt|Call-ID: 0123456789abcdef-2|CSeq: 1 INVITE|Content-Length: 0|
at 5000 web|PUT /simservs/2 HTTP/1.1|X-3GPP-Asserted-Identity: "sip:bob@home.example"|Content-Type: application/toml|Content-Length: 0|
at 20100 quiet
~ The record of the attempt stands: he is cancelled at 20,100 and the call goes on.
at 0 web|HTTP/1.1 200 OK|Content-Length: 0|Connection: close|
at 0 to 1|SIP/2.0 100 Trying|Via: SIP/2.0/UDP 127.0.0.1:5071;branch=z9hG4bKc1|From: "Alice" <sip:alice@home.example>;tag=t1|To: <sip:bob@home.example>|Call-ID: call1
|CSeq: 7 INVITE|Content-Length: 0|
at 0 to 1|INVITE sip:bob@home.example SIP/2.0|Via: SIP/2.0/UDP 127.0.0.1:5060;branch=z9hG4bK0123456789abcdef-4|Max-Forwards: 67
|From: "Alice" <sip:alice@home.example>;tag=0123456789abcdef-3|To: <sip:bob@home.example>|Call-ID: 0123456789abcdef-2|CSeq: 1 INVITE|Contact: <sip:127.0.0.1:5060>
|P-Asserted-Identity: <sip:alice@home.example>|Content-Length: 0|
at 100 to 1|SIP/2.0 180 Ringing|Via: SIP/2.0/UDP 127.0.0.1:5071;branch=z9hG4bKc1|From: "Alice" <sip:alice@home.example>;tag=t1
|To: <sip:bob@home.example>;tag=0123456789abcdef-1|Call-ID: call1|CSeq: 7 INVITE|Contact: <sip:127.0.0.1:5060>|Content-Length: 0|
at 5000 web|HTTP/1.1 200 OK|Content-Length: 0|Connection: close|
at 20100 to 1|CANCEL sip:bob@home.example SIP/2.0|Via: SIP/2.0/UDP 127.0.0.1:5060;branch=z9hG4bK0123456789abcdef-4|Max-Forwards: 70
|From: "Alice" <sip:alice@home.example>;tag=0123456789abcdef-3|To: <sip:bob@home.example>|Call-ID: 0123456789abcdef-2|CSeq: 1 CANCEL|Content-Length: 0|
at 20100 to 1|SIP/2.0 181 Call Is Being Forwarded|Via: SIP/2.0/UDP 127.0.0.1:5071;branch=z9hG4bKc1|From: "Alice" <sip:alice@home.example>;tag=t1
|To: <sip:bob@home.example>;tag=0123456789abcdef-1|Call-ID: call1|CSeq: 7 INVITE|Contact: <sip:127.0.0.1:5060>|History-Info: <sip:bob@home.example>;index=1
|History-Info: <sip:vm@far.example;cause=408>;index=1.1|Content-Length: 0|
at 20100 to 2|INVITE sip:vm@far.example;cause=408 SIP/2.0|Via: SIP/2.0/UDP 127.0.0.1:5060;branch=z9hG4bK0123456789abcdef-7|Max-Forwards: 67
|From: "Alice" <sip:alice@home.example>;tag=0123456789abcdef-6|To: <sip:vm@far.example>|Call-ID: 0123456789abcdef-5|CSeq: 1 INVITE|Contact: <sip:127.0.0.1:5060>
|P-Asserted-Identity: <sip:alice@home.example>|History-Info: <sip:bob@home.example>;index=1|History-Info: <sip:vm@far.example;cause=408>;index=1.1|Content-Length: 0|
~ A call that was diverted five times comes to bob, who is busy and diverts then.
# [communication-diversion]
# [[communication-diversion.rule]]
# busy = true
# target = "sip:vm@far.example"
at 0 web|PUT /simservs/2 HTTP/1.1|X-3GPP-Asserted-Identity: "sip:bob@home.example"|Content-Type: application/toml|Content-Length: 101|
x5b636f6d6d756e69636174696f6e2d646976657273696f6e5d0a5b5b636f6d6d756e69636174696f6e2d646976657273696f6e2e72756c655d5d0a62757379203d20747275650a746172676574203d2\
0227369703a766d406661722e6578616d706c65220a
at 0 peer 1|INVITE sip:bob@home.example SIP/2.0|Via: SIP/2.0/UDP 127.0.0.1:5071;branch=z9hG4bKc1|Max-Forwards: 68|From: "Erin" <sip:erin@other.example>;tag=t1
|To: <sip:bob@home.example>|Call-ID: call1|CSeq: 7 INVITE|Contact: <sip:erin@127.0.0.1:5071>|P-Asserted-Identity: <sip:erin@other.example>|Content-Length: 0|
at 0 peer 1|INVITE sip:bob@home.example SIP/2.0|Via: SIP/2.0/UDP 127.0.0.1:5071;branch=z9hG4bKc2|Max-Forwards: 68|From: "Alice" <sip:alice@home.example>;tag=t2
|To: <sip:bob@home.example>|Call-ID: call2|CSeq: 7 INVITE|Contact: <sip:alice@127.0.0.1:5071>|P-Asserted-Identity: <sip:alice@home.example>
|History-Info: <sip:x0@far.example>;index=1|History-Info: <sip:x1@far.example;cause=302>;index=1.1|History-Info: <sip:x2@far.example;cause=302>;index=1.1.1
|History-Info: <sip:x3@far.example;cause=302>;index=1.1.1.1|History-Info: <sip:x4@far.example;cause=302>;index=1.1.1.1.1
|History-Info: <sip:x5@far.example;cause=302>;index=1.1.1.1.1.1|Content-Length: 0|
~ 486: the bound is reached.
at 0 web|HTTP/1.1 200 OK|Content-Length: 0|Connection: close|
at 0 to 1|SIP/2.0 100 Trying|Via: SIP/2.0/UDP 127.0.0.1:5071;branch=z9hG4bKc1|From: "Erin" <sip:erin@other.example>;tag=t1|To: <sip:bob@home.example>|Call-ID: call1
|CSeq: 7 INVITE|Content-Length: 0|
at 0 to 1|INVITE sip:bob@home.example SIP/2.0|Via: SIP/2.0/UDP 127.0.0.1:5060;branch=z9hG4bK0123456789abcdef-4|Max-Forwards: 67
|From: "Erin" <sip:erin@other.example>;tag=0123456789abcdef-3|To: <sip:bob@home.example>|Call-ID: 0123456789abcdef-2|CSeq: 1 INVITE|Contact: <sip:127.0.0.1:5060>
|P-Asserted-Identity: <sip:erin@other.example>|Content-Length: 0|
at 0 to 1|SIP/2.0 100 Trying|Via: SIP/2.0/UDP 127.0.0.1:5071;branch=z9hG4bKc2|From: "Alice" <sip:alice@home.example>;tag=t2|To: <sip:bob@home.example>|Call-ID: call2
|CSeq: 7 INVITE|Content-Length: 0|
at 0 to 1|SIP/2.0 486 Busy Here|Via: SIP/2.0/UDP 127.0.0.1:5071;branch=z9hG4bKc2|From: "Alice" <sip:alice@home.example>;tag=t2
|To: <sip:bob@home.example>;tag=0123456789abcdef-5|Call-ID: call2|CSeq: 7 INVITE|Content-Length: 0|
~ The same to bob, who diverts everybody.
# [communication-diversion]
# [[communication-diversion.rule]]
# target = "sip:vm@far.example"
at 0 web|PUT /simservs/2 HTTP/1.1|X-3GPP-Asserted-Identity: "sip:bob@home.example"|Content-Type: application/toml|Content-Length: 89|
x5b636f6d6d756e69636174696f6e2d646976657273696f6e5d0a5b5b636f6d6d756e69636174696f6e2d646976657273696f6e2e72756c655d5d0a746172676574203d20227369703a766d406661722e6578616d706c65220a
at 0 peer 1|INVITE sip:bob@home.example SIP/2.0|Via: SIP/2.0/UDP 127.0.0.1:5071;branch=z9hG4bKc2|Max-Forwards: 68|From: "Alice" <sip:alice@home.example>;tag=t2
|To: <sip:bob@home.example>|Call-ID: call2|CSeq: 7 INVITE|Contact: <sip:alice@127.0.0.1:5071>|P-Asserted-Identity: <sip:alice@home.example>
|History-Info: <sip:x0@far.example>;index=1|History-Info: <sip:x1@far.example;cause=302>;index=1.1|History-Info: <sip:x2@far.example;cause=302>;index=1.1.1
|History-Info: <sip:x3@far.example;cause=302>;index=1.1.1.1|History-Info: <sip:x4@far.example;cause=302>;index=1.1.1.1.1
|History-Info: <sip:x5@far.example;cause=302>;index=1.1.1.1.1.1|Content-Length: 0|
~ 480.
at 0 web|HTTP/1.1 200 OK|Content-Length: 0|Connection: close|
at 0 to 1|SIP/2.0 100 Trying|Via: SIP/2.0/UDP 127.0.0.1:5071;branch=z9hG4bKc2|From: "Alice" <sip:alice@home.example>;tag=t2|To: <sip:bob@home.example>|Call-ID: call2
|CSeq: 7 INVITE|Content-Length: 0|
at 0 to 1|SIP/2.0 480 Temporarily Unavailable|Via: SIP/2.0/UDP 127.0.0.1:5071;branch=z9hG4bKc2|From: "Alice" <sip:alice@home.example>;tag=t2
|To: <sip:bob@home.example>;tag=0123456789abcdef-1|Call-ID: call2|CSeq: 7 INVITE|Content-Length: 0|
~ A call that was diverted four times comes to bob, who is busy and diverts then.
# [communication-diversion]
# [[communication-diversion.rule]]
# busy = true
# target = "sip:vm@far.example"
at 0 web|PUT /simservs/2 HTTP/1.1|X-3GPP-Asserted-Identity: "sip:bob@home.example"|Content-Type: application/toml|Content-Length: 101|
x5b636f6d6d756e69636174696f6e2d646976657273696f6e5d0a5b5b636f6d6d756e69636174696f6e2d646976657273696f6e2e72756c655d5d0a62757379203d20747275650a746172676574203d2\
0227369703a766d406661722e6578616d706c65220a
at 0 peer 1|INVITE sip:bob@home.example SIP/2.0|Via: SIP/2.0/UDP 127.0.0.1:5071;branch=z9hG4bKc1|Max-Forwards: 68|From: "Erin" <sip:erin@other.example>;tag=t1
|To: <sip:bob@home.example>|Call-ID: call1|CSeq: 7 INVITE|Contact: <sip:erin@127.0.0.1:5071>|P-Asserted-Identity: <sip:erin@other.example>|Content-Length: 0|
at 0 peer 1|INVITE sip:bob@home.example SIP/2.0|Via: SIP/2.0/UDP 127.0.0.1:5071;branch=z9hG4bKc2|Max-Forwards: 68|From: "Alice" <sip:alice@home.example>;tag=t2
|To: <sip:bob@home.example>|Call-ID: call2|CSeq: 7 INVITE|Contact: <sip:alice@127.0.0.1:5071>|P-Asserted-Identity: <sip:alice@home.example>
|History-Info: <sip:x0@far.example>;index=1|History-Info: <sip:x1@far.example;cause=302>;index=1.1|History-Info: <sip:x2@far.example;cause=302>;index=1.1.1
|History-Info: <sip:x3@far.example;cause=302>;index=1.1.1.1|History-Info: <sip:x4@far.example;cause=302>;index=1.1.1.1.1|Content-Length: 0|
~ It is diverted.
at 0 web|HTTP/1.1 200 OK|Content-Length: 0|Connection: close|
at 0 to 1|SIP/2.0 100 Trying|Via: SIP/2.0/UDP 127.0.0.1:5071;branch=z9hG4bKc1|From: "Erin" <sip:erin@other.example>;tag=t1|To: <sip:bob@home.example>|Call-ID: call1
|CSeq: 7 INVITE|Content-Length: 0|
at 0 to 1|INVITE sip:bob@home.example SIP/2.0|Via: SIP/2.0/UDP 127.0.0.1:5060;branch=z9hG4bK0123456789abcdef-4|Max-Forwards: 67
|From: "Erin" <sip:erin@other.example>;tag=0123456789abcdef-3|To: <sip:bob@home.example>|Call-ID: 0123456789abcdef-2|CSeq: 1 INVITE|Contact: <sip:127.0.0.1:5060>
|P-Asserted-Identity: <sip:erin@other.example>|Content-Length: 0|
at 0 to 1|SIP/2.0 100 Trying|Via: SIP/2.0/UDP 127.0.0.1:5071;branch=z9hG4bKc2|From: "Alice" <sip:alice@home.example>;tag=t2|To: <sip:bob@home.example>|Call-ID: call2
|CSeq: 7 INVITE|Content-Length: 0|
at 0 to 1|SIP/2.0 181 Call Is Being Forwarded|Via: SIP/2.0/UDP 127.0.0.1:5071;branch=z9hG4bKc2|From: "Alice" <sip:alice@home.example>;tag=t2
|To: <sip:bob@home.example>;tag=0123456789abcdef-5|Call-ID: call2|CSeq: 7 INVITE|Contact: <sip:127.0.0.1:5060>|History-Info: <sip:x0@far.example>;index=1
|History-Info: <sip:x1@far.example;cause=302>;index=1.1|History-Info: <sip:x2@far.example;cause=302>;index=1.1.1
|History-Info: <sip:x3@far.example;cause=302>;index=1.1.1.1|History-Info: <sip:x4@far.example;cause=302>;index=1.1.1.1.1
|History-Info: <sip:vm@far.example;cause=486>;index=1.1.1.1.1.1|Content-Length: 0|
at 0 to 2|INVITE sip:vm@far.example;cause=486 SIP/2.0|Via: SIP/2.0/UDP 127.0.0.1:5060;branch=z9hG4bK0123456789abcdef-8|Max-Forwards: 67
|From: "Alice" <sip:alice@home.example>;tag=0123456789abcdef-7|To: <sip:vm@far.example>|Call-ID: 0123456789abcdef-6|CSeq: 1 INVITE|Contact: <sip:127.0.0.1:5060>
|P-Asserted-Identity: <sip:alice@home.example>|History-Info: <sip:x0@far.example>;index=1|History-Info: <sip:x1@far.example;cause=302>;index=1.1
|History-Info: <sip:x2@far.example;cause=302>;index=1.1.1|History-Info: <sip:x3@far.example;cause=302>;index=1.1.1.1
|History-Info: <sip:x4@far.example;cause=302>;index=1.1.1.1.1|History-Info: <sip:vm@far.example;cause=486>;index=1.1.1.1.1.1|Content-Length: 0|
~ The same to bob, who diverts everybody.
# [communication-diversion]
# [[communication-diversion.rule]]
# target = "sip:vm@far.example"
at 0 web|PUT /simservs/2 HTTP/1.1|X-3GPP-Asserted-Identity: "sip:bob@home.example"|Content-Type: application/toml|Content-Length: 89|
x5b636f6d6d756e69636174696f6e2d646976657273696f6e5d0a5b5b636f6d6d756e69636174696f6e2d646976657273696f6e2e72756c655d5d0a746172676574203d20227369703a766d406661722e6578616d706c65220a
at 0 peer 1|INVITE sip:bob@home.example SIP/2.0|Via: SIP/2.0/UDP 127.0.0.1:5071;branch=z9hG4bKc2|Max-Forwards: 68|From: "Alice" <sip:alice@home.example>;tag=t2
|To: <sip:bob@home.example>|Call-ID: call2|CSeq: 7 INVITE|Contact: <sip:alice@127.0.0.1:5071>|P-Asserted-Identity: <sip:alice@home.example>
|History-Info: <sip:x0@far.example>;index=1|History-Info: <sip:x1@far.example;cause=302>;index=1.1|History-Info: <sip:x2@far.example;cause=302>;index=1.1.1
|History-Info: <sip:x3@far.example;cause=302>;index=1.1.1.1|History-Info: <sip:x4@far.example;cause=302>;index=1.1.1.1.1|Content-Length: 0|
~ It is diverted.
at 0 web|HTTP/1.1 200 OK|Content-Length: 0|Connection: close|
at 0 to 1|SIP/2.0 100 Trying|Via: SIP/2.0/UDP 127.0.0.1:5071;branch=z9hG4bKc2|From: "Alice" <sip:alice@home.example>;tag=t2|To: <sip:bob@home.example>|Call-ID: call2
|CSeq: 7 INVITE|Content-Length: 0|
at 0 to 1|SIP/2.0 181 Call Is Being Forwarded|Via: SIP/2.0/UDP 127.0.0.1:5071;branch=z9hG4bKc2|From: "Alice" <sip:alice@home.example>;tag=t2
|To: <sip:bob@home.example>;tag=0123456789abcdef-1|Call-ID: call2|CSeq: 7 INVITE|Contact: <sip:127.0.0.1:5060>|History-Info: <sip:x0@far.example>;index=1
|History-Info: <sip:x1@far.example;cause=302>;index=1.1|History-Info: <sip:x2@far.example;cause=302>;index=1.1.1
|History-Info: <sip:x3@far.example;cause=302>;index=1.1.1.1|History-Info: <sip:x4@far.example;cause=302>;index=1.1.1.1.1
|History-Info: <sip:vm@far.example;cause=302>;index=1.1.1.1.1.1|Content-Length: 0|
at 0 to 2|INVITE sip:vm@far.example;cause=302 SIP/2.0|Via: SIP/2.0/UDP 127.0.0.1:5060;branch=z9hG4bK0123456789abcdef-4|Max-Forwards: 67
|From: "Alice" <sip:alice@home.example>;tag=0123456789abcdef-3|To: <sip:vm@far.example>|Call-ID: 0123456789abcdef-2|CSeq: 1 INVITE|Contact: <sip:127.0.0.1:5060>
|P-Asserted-Identity: <sip:alice@home.example>|History-Info: <sip:x0@far.example>;index=1|History-Info: <sip:x1@far.example;cause=302>;index=1.1
|History-Info: <sip:x2@far.example;cause=302>;index=1.1.1|History-Info: <sip:x3@far.example;cause=302>;index=1.1.1.1
|History-Info: <sip:x4@far.example;cause=302>;index=1.1.1.1.1|History-Info: <sip:vm@far.example;cause=302>;index=1.1.1.1.1.1|Content-Length: 0|
~ Bob diverts to himself.
# [communication-diversion]
# [[communication-diversion.rule]]
# target = "sip:bob@home.example"
at 0 web|PUT /simservs/2 HTTP/1.1|X-3GPP-Asserted-Identity: "sip:bob@home.example"|Content-Type: application/toml|Content-Length: 91|
x5b636f6d6d756e69636174696f6e2d646976657273696f6e5d0a5b5b636f6d6d756e69636174696f6e2d646976657273696f6e2e72756c655d5d0a746172676574203d20227369703a626f6240686f6\
d652e6578616d706c65220a
at 0 peer 1|INVITE sip:bob@home.example SIP/2.0|Via: SIP/2.0/UDP 127.0.0.1:5071;branch=z9hG4bKc1|Max-Forwards: 68|From: "Alice" <sip:alice@home.example>;tag=t1
|To: <sip:bob@home.example>|Call-ID: call1|CSeq: 7 INVITE|Contact: <sip:alice@127.0.0.1:5071>|P-Asserted-Identity: <sip:alice@home.example>|Content-Length: 0|
~ Five 181, and then 480.
at 0 web|HTTP/1.1 200 OK|Content-Length: 0|Connection: close|
at 0 to 1|SIP/2.0 100 Trying|Via: SIP/2.0/UDP 127.0.0.1:5071;branch=z9hG4bKc1|From: "Alice" <sip:alice@home.example>;tag=t1|To: <sip:bob@home.example>|Call-ID: call1
|CSeq: 7 INVITE|Content-Length: 0|
at 0 to 1|SIP/2.0 181 Call Is Being Forwarded|Via: SIP/2.0/UDP 127.0.0.1:5071;branch=z9hG4bKc1|From: "Alice" <sip:alice@home.example>;tag=t1
|To: <sip:bob@home.example>;tag=0123456789abcdef-1|Call-ID: call1|CSeq: 7 INVITE|Contact: <sip:127.0.0.1:5060>|History-Info: <sip:bob@home.example>;index=1
|History-Info: <sip:bob@home.example;cause=302>;index=1.1|Content-Length: 0|
at 0 to 1|SIP/2.0 181 Call Is Being Forwarded|Via: SIP/2.0/UDP 127.0.0.1:5071;branch=z9hG4bKc1|From: "Alice" <sip:alice@home.example>;tag=t1
|To: <sip:bob@home.example>;tag=0123456789abcdef-1|Call-ID: call1|CSeq: 7 INVITE|Contact: <sip:127.0.0.1:5060>|History-Info: <sip:bob@home.example>;index=1
|History-Info: <sip:bob@home.example;cause=302>;index=1.1|History-Info: <sip:bob@home.example;cause=302>;index=1.1.1|Content-Length: 0|
at 0 to 1|SIP/2.0 181 Call Is Being Forwarded|Via: SIP/2.0/UDP 127.0.0.1:5071;branch=z9hG4bKc1|From: "Alice" <sip:alice@home.example>;tag=t1
|To: <sip:bob@home.example>;tag=0123456789abcdef-1|Call-ID: call1|CSeq: 7 INVITE|Contact: <sip:127.0.0.1:5060>|History-Info: <sip:bob@home.example>;index=1
|History-Info: <sip:bob@home.example;cause=302>;index=1.1|History-Info: <sip:bob@home.example;cause=302>;index=1.1.1
|History-Info: <sip:bob@home.example;cause=302>;index=1.1.1.1|Content-Length: 0|
at 0 to 1|SIP/2.0 181 Call Is Being Forwarded|Via: SIP/2.0/UDP 127.0.0.1:5071;branch=z9hG4bKc1|From: "Alice" <sip:alice@home.example>;tag=t1
|To: <sip:bob@home.example>;tag=0123456789abcdef-1|Call-ID: call1|CSeq: 7 INVITE|Contact: <sip:127.0.0.1:5060>|History-Info: <sip:bob@home.example>;index=1
|History-Info: <sip:bob@home.example;cause=302>;index=1.1|History-Info: <sip:bob@home.example;cause=302>;index=1.1.1
|History-Info: <sip:bob@home.example;cause=302>;index=1.1.1.1|History-Info: <sip:bob@home.example;cause=302>;index=1.1.1.1.1|Content-Length: 0|
at 0 to 1|SIP/2.0 181 Call Is Being Forwarded|Via: SIP/2.0/UDP 127.0.0.1:5071;branch=z9hG4bKc1|From: "Alice" <sip:alice@home.example>;tag=t1
|To: <sip:bob@home.example>;tag=0123456789abcdef-1|Call-ID: call1|CSeq: 7 INVITE|Contact: <sip:127.0.0.1:5060>|History-Info: <sip:bob@home.example>;index=1
|History-Info: <sip:bob@home.example;cause=302>;index=1.1|History-Info: <sip:bob@home.example;cause=302>;index=1.1.1
|History-Info: <sip:bob@home.example;cause=302>;index=1.1.1.1|History-Info: <sip:bob@home.example;cause=302>;index=1.1.1.1.1
|History-Info: <sip:bob@home.example;cause=302>;index=1.1.1.1.1.1|Content-Length: 0|
at 0 to 1|SIP/2.0 480 Temporarily Unavailable|Via: SIP/2.0/UDP 127.0.0.1:5071;branch=z9hG4bKc1|From: "Alice" <sip:alice@home.example>;tag=t1
|To: <sip:bob@home.example>;tag=0123456789abcdef-1|Call-ID: call1|CSeq: 7 INVITE|Content-Length: 0|
~ Bob diverts when he is not reachable, and nothing comes of him.
# [communication-diversion]
# [[communication-diversion.rule]]
# not-reachable = true
# target = "sip:vm@far.example"
at 0 web|PUT /simservs/2 HTTP/1.1|X-3GPP-Asserted-Identity: "sip:bob@home.example"|Content-Type: application/toml|Content-Length: 110|
x5b636f6d6d756e69636174696f6e2d646976657273696f6e5d0a5b5b636f6d6d756e69636174696f6e2d646976657273696f6e2e72756c655d5d0a6e6f742d726561636861626c65203d20747275650\
a746172676574203d20227369703a766d406661722e6578616d706c65220a
at 0 peer 1|INVITE sip:bob@home.example SIP/2.0|Via: SIP/2.0/UDP 127.0.0.1:5071;branch=z9hG4bKc1|Max-Forwards: 68|From: "Alice" <sip:alice@home.example>;tag=t1
|To: <sip:bob@home.example>|Call-ID: call1|CSeq: 7 INVITE|Contact: <sip:alice@127.0.0.1:5071>|P-Asserted-Identity: <sip:alice@home.example>|Content-Length: 0|
at 40000 quiet
~ The INVITE is sent six times again (Timer A of RFC 3261 section 17.1.1.2), and the call goes on when Timer B fires.
at 0 web|HTTP/1.1 200 OK|Content-Length: 0|Connection: close|
at 0 to 1|SIP/2.0 100 Trying|Via: SIP/2.0/UDP 127.0.0.1:5071;branch=z9hG4bKc1|From: "Alice" <sip:alice@home.example>;tag=t1|To: <sip:bob@home.example>|Call-ID: call1
|CSeq: 7 INVITE|Content-Length: 0|
at 0 to 1|INVITE sip:bob@home.example SIP/2.0|Via: SIP/2.0/UDP 127.0.0.1:5060;branch=z9hG4bK0123456789abcdef-4|Max-Forwards: 67
|From: "Alice" <sip:alice@home.example>;tag=0123456789abcdef-3|To: <sip:bob@home.example>|Call-ID: 0123456789abcdef-2|CSeq: 1 INVITE|Contact: <sip:127.0.0.1:5060>
|P-Asserted-Identity: <sip:alice@home.example>|Content-Length: 0|
at 500 to 1|INVITE sip:bob@home.example SIP/2.0|Via: SIP/2.0/UDP 127.0.0.1:5060;branch=z9hG4bK0123456789abcdef-4|Max-Forwards: 67
|From: "Alice" <sip:alice@home.example>;tag=0123456789abcdef-3|To: <sip:bob@home.example>|Call-ID: 0123456789abcdef-2|CSeq: 1 INVITE|Contact: <sip:127.0.0.1:5060>
|P-Asserted-Identity: <sip:alice@home.example>|Content-Length: 0|
at 1500 to 1|INVITE sip:bob@home.example SIP/2.0|Via: SIP/2.0/UDP 127.0.0.1:5060;branch=z9hG4bK0123456789abcdef-4|Max-Forwards: 67
|From: "Alice" <sip:alice@home.example>;tag=0123456789abcdef-3|To: <sip:bob@home.example>|Call-ID: 0123456789abcdef-2|CSeq: 1 INVITE|Contact: <sip:127.0.0.1:5060>
|P-Asserted-Identity: <sip:alice@home.example>|Content-Length: 0|
at 3500 to 1|INVITE sip:bob@home.example SIP/2.0|Via: SIP/2.0/UDP 127.0.0.1:5060;branch=z9hG4bK0123456789abcdef-4|Max-Forwards: 67
|From: "Alice" <sip:alice@home.example>;tag=0123456789abcdef-3|To: <sip:bob@home.example>|Call-ID: 0123456789abcdef-2|CSeq: 1 INVITE|Contact: <sip:127.0.0.1:5060>
|P-Asserted-Identity: <sip:alice@home.example>|Content-Length: 0|
at 7500 to 1|INVITE sip:bob@home.example SIP/2.0|Via: SIP/2.0/UDP 127.0.0.1:5060;branch=z9hG4bK0123456789abcdef-4|Max-Forwards: 67
|From: "Alice" <sip:alice@home.example>;tag=0123456789abcdef-3|To: <sip:bob@home.example>|Call-ID: 0123456789abcdef-2|CSeq: 1 INVITE|Contact: <sip:127.0.0.1:5060>
|P-Asserted-Identity: <sip:alice@home.example>|Content-Length: 0|
at 15500 to 1|INVITE sip:bob@home.example SIP/2.0|Via: SIP/2.0/UDP 127.0.0.1:5060;branch=z9hG4bK0123456789abcdef-4|Max-Forwards: 67
|From: "Alice" <sip:alice@home.example>;tag=0123456789abcdef-3|To: <sip:bob@home.example>|Call-ID: 0123456789abcdef-2|CSeq: 1 INVITE|Contact: <sip:127.0.0.1:5060>
|P-Asserted-Identity: <sip:alice@home.example>|Content-Length: 0|
at 31500 to 1|INVITE sip:bob@home.example SIP/2.0|Via: SIP/2.0/UDP 127.0.0.1:5060;branch=z9hG4bK0123456789abcdef-4|Max-Forwards: 67
|From: "Alice" <sip:alice@home.example>;tag=0123456789abcdef-3|To: <sip:bob@home.example>|Call-ID: 0123456789abcdef-2|CSeq: 1 INVITE|Contact: <sip:127.0.0.1:5060>
|P-Asserted-Identity: <sip:alice@home.example>|Content-Length: 0|
at 32000 to 1|SIP/2.0 181 Call Is Being Forwarded|Via: SIP/2.0/UDP 127.0.0.1:5071;branch=z9hG4bKc1|From: "Alice" <sip:alice@home.example>;tag=t1
|To: <sip:bob@home.example>;tag=0123456789abcdef-1|Call-ID: call1|CSeq: 7 INVITE|Contact: <sip:127.0.0.1:5060>|History-Info: <sip:bob@home.example>;index=1
|History-Info: <sip:vm@far.example;cause=503>;index=1.1|Content-Length: 0|
at 32000 to 2|INVITE sip:vm@far.example;cause=503 SIP/2.0|Via: SIP/2.0/UDP 127.0.0.1:5060;branch=z9hG4bK0123456789abcdef-7|Max-Forwards: 67
|From: "Alice" <sip:alice@home.example>;tag=0123456789abcdef-6|To: <sip:vm@far.example>|Call-ID: 0123456789abcdef-5|CSeq: 1 INVITE|Contact: <sip:127.0.0.1:5060>
|P-Asserted-Identity: <sip:alice@home.example>|History-Info: <sip:bob@home.example>;index=1|History-Info: <sip:vm@far.example;cause=503>;index=1.1|Content-Length: 0|
at 32500 to 2|INVITE sip:vm@far.example;cause=503 SIP/2.0|Via: SIP/2.0/UDP 127.0.0.1:5060;branch=z9hG4bK0123456789abcdef-7|Max-Forwards: 67
|From: "Alice" <sip:alice@home.example>;tag=0123456789abcdef-6|To: <sip:vm@far.example>|Call-ID: 0123456789abcdef-5|CSeq: 1 INVITE|Contact: <sip:127.0.0.1:5060>
|P-Asserted-Identity: <sip:alice@home.example>|History-Info: <sip:bob@home.example>;index=1|History-Info: <sip:vm@far.example;cause=503>;index=1.1|Content-Length: 0|
at 33500 to 2|INVITE sip:vm@far.example;cause=503 SIP/2.0|Via: SIP/2.0/UDP 127.0.0.1:5060;branch=z9hG4bK0123456789abcdef-7|Max-Forwards: 67
|From: "Alice" <sip:alice@home.example>;tag=0123456789abcdef-6|To: <sip:vm@far.example>|Call-ID: 0123456789abcdef-5|CSeq: 1 INVITE|Contact: <sip:127.0.0.1:5060>
|P-Asserted-Identity: <sip:alice@home.example>|History-Info: <sip:bob@home.example>;index=1|History-Info: <sip:vm@far.example;cause=503>;index=1.1|Content-Length: 0|
at 35500 to 2|INVITE sip:vm@far.example;cause=503 SIP/2.0|Via: SIP/2.0/UDP 127.0.0.1:5060;branch=z9hG4bK0123456789abcdef-7|Max-Forwards: 67
|From: "Alice" <sip:alice@home.example>;tag=0123456789abcdef-6|To: <sip:vm@far.example>|Call-ID: 0123456789abcdef-5|CSeq: 1 INVITE|Contact: <sip:127.0.0.1:5060>
|P-Asserted-Identity: <sip:alice@home.example>|History-Info: <sip:bob@home.example>;index=1|History-Info: <sip:vm@far.example;cause=503>;index=1.1|Content-Length: 0|
at 39500 to 2|INVITE sip:vm@far.example;cause=503 SIP/2.0|Via: SIP/2.0/UDP 127.0.0.1:5060;branch=z9hG4bK0123456789abcdef-7|Max-Forwards: 67
|From: "Alice" <sip:alice@home.example>;tag=0123456789abcdef-6|To: <sip:vm@far.example>|Call-ID: 0123456789abcdef-5|CSeq: 1 INVITE|Contact: <sip:127.0.0.1:5060>
|P-Asserted-Identity: <sip:alice@home.example>|History-Info: <sip:bob@home.example>;index=1|History-Info: <sip:vm@far.example;cause=503>;index=1.1|Content-Length: 0|
~ Bob has communication waiting with two calls; three call him at once, two are answered and end, and carol calls again (3GPP TS 24.615 section 4.5.5).
# [communication-waiting]
# calls = 2
at 0 web|PUT /simservs/2 HTTP/1.1|X-3GPP-Asserted-Identity: "sip:bob@home.example"|Content-Type: application/toml|Content-Length: 34|
x5b636f6d6d756e69636174696f6e2d77616974696e675d0a63616c6c73203d20320a
at 0 peer 1|INVITE sip:bob@home.example SIP/2.0|Via: SIP/2.0/UDP 127.0.0.1:5071;branch=z9hG4bKc1|Max-Forwards: 68|From: "Alice" <sip:alice@home.example>;tag=t1
|To: <sip:bob@home.example>|Call-ID: call1|CSeq: 7 INVITE|Contact: <sip:alice@127.0.0.1:5071>|P-Asserted-Identity: <sip:alice@home.example>|Content-Length: 0|
at 0 peer 1|INVITE sip:bob@home.example SIP/2.0|Via: SIP/2.0/UDP 127.0.0.1:5071;branch=z9hG4bKc2|Max-Forwards: 68|From: "Erin" <sip:erin@other.example>;tag=t2
|To: <sip:bob@home.example>|Call-ID: call2|CSeq: 7 INVITE|Contact: <sip:erin@127.0.0.1:5071>|P-Asserted-Identity: <sip:erin@other.example>|Content-Length: 0|
at 0 peer 1|INVITE sip:bob@home.example SIP/2.0|Via: SIP/2.0/UDP 127.0.0.1:5071;branch=z9hG4bKc3|Max-Forwards: 68|From: "Carol" <sip:carol@home.example>;tag=t3
|To: <sip:bob@home.example>|Call-ID: call3|CSeq: 7 INVITE|Contact: <sip:carol@127.0.0.1:5071>|P-Asserted-Identity: <sip:carol@home.example>|Content-Length: 0|
at 0 peer 1|ACK sip:bob@home.example SIP/2.0|Via: SIP/2.0/UDP 127.0.0.1:5071;branch=z9hG4bKc3|Max-Forwards: 68|From: "Carol" <sip:carol@home.example>;tag=t3
|To: <sip:bob@home.example>;tag=0123456789abcdef-9|Call-ID: call3|CSeq: 7 ACK|Content-Length: 0|
at 200 peer 1|SIP/2.0 200 OK|Via: SIP/2.0/UDP 127.0.0.1:5060;branch=z9hG4bK0123456789abcdef-4|From: "Alice" <sip:alice@home.example>;tag=0123456789abcdef-3
|To: <sip:bob@home.example>;tag=b1|Call-ID: 0123456789abcdef-2|CSeq: 1 INVITE|Contact: <sip:bob1@127.0.0.1:5071>|Content-Length: 0|
at 200 peer 1|SIP/2.0 200 OK|Via: SIP/2.0/UDP 127.0.0.1:5060;branch=z9hG4bK0123456789abcdef-8|From: "Erin" <sip:erin@other.example>;tag=0123456789abcdef-7
|To: <sip:bob@home.example>;tag=b2|Call-ID: 0123456789abcdef-6|CSeq: 1 INVITE|Contact: <sip:bob2@127.0.0.1:5071>|Content-Length: 0|
at 300 peer 1|ACK sip:127.0.0.1:5060 SIP/2.0|Via: SIP/2.0/UDP 127.0.0.1:5071;branch=z9hG4bKk1|Max-Forwards: 68|From: "Alice" <sip:alice@home.example>;tag=t1
|To: <sip:bob@home.example>;tag=0123456789abcdef-1|Call-ID: call1|CSeq: 7 ACK|Content-Length: 0|
at 300 peer 1|ACK sip:127.0.0.1:5060 SIP/2.0|Via: SIP/2.0/UDP 127.0.0.1:5071;branch=z9hG4bKk2|Max-Forwards: 68|From: "Erin" <sip:erin@other.example>;tag=t2
|To: <sip:bob@home.example>;tag=0123456789abcdef-5|Call-ID: call2|CSeq: 7 ACK|Content-Length: 0|
at 400 peer 1|BYE sip:127.0.0.1:5060 SIP/2.0|Via: SIP/2.0/UDP 127.0.0.1:5071;branch=z9hG4bKy1|Max-Forwards: 68|From: "Alice" <sip:alice@home.example>;tag=t1
|To: <sip:bob@home.example>;tag=0123456789abcdef-1|Call-ID: call1|CSeq: 8 BYE|Content-Length: 0|
at 400 peer 1|BYE sip:127.0.0.1:5060 SIP/2.0|Via: SIP/2.0/UDP 127.0.0.1:5071;branch=z9hG4bKy2|Max-Forwards: 68|From: "Erin" <sip:erin@other.example>;tag=t2
|To: <sip:bob@home.example>;tag=0123456789abcdef-5|Call-ID: call2|CSeq: 8 BYE|Content-Length: 0|
at 450 peer 1|INVITE sip:bob@home.example SIP/2.0|Via: SIP/2.0/UDP 127.0.0.1:5071;branch=z9hG4bKc4|Max-Forwards: 68|From: "Alice" <sip:alice@home.example>;tag=t4
|To: <sip:bob@home.example>|Call-ID: call4|CSeq: 7 INVITE|Contact: <sip:alice@127.0.0.1:5071>|P-Asserted-Identity: <sip:alice@home.example>|Content-Length: 0|
~ The second is told to wait, the third is 486, and the last is offered as the first was.
at 0 web|HTTP/1.1 200 OK|Content-Length: 0|Connection: close|
at 0 to 1|SIP/2.0 100 Trying|Via: SIP/2.0/UDP 127.0.0.1:5071;branch=z9hG4bKc1|From: "Alice" <sip:alice@home.example>;tag=t1|To: <sip:bob@home.example>|Call-ID: call1
|CSeq: 7 INVITE|Content-Length: 0|
at 0 to 1|INVITE sip:bob@home.example SIP/2.0|Via: SIP/2.0/UDP 127.0.0.1:5060;branch=z9hG4bK0123456789abcdef-4|Max-Forwards: 67
|From: "Alice" <sip:alice@home.example>;tag=0123456789abcdef-3|To: <sip:bob@home.example>|Call-ID: 0123456789abcdef-2|CSeq: 1 INVITE|Contact: <sip:127.0.0.1:5060>
|P-Asserted-Identity: <sip:alice@home.example>|Content-Length: 0|
at 0 to 1|SIP/2.0 100 Trying|Via: SIP/2.0/UDP 127.0.0.1:5071;branch=z9hG4bKc2|From: "Erin" <sip:erin@other.example>;tag=t2|To: <sip:bob@home.example>|Call-ID: call2
|CSeq: 7 INVITE|Content-Length: 0|
at 0 to 1|INVITE sip:bob@home.example SIP/2.0|Via: SIP/2.0/UDP 127.0.0.1:5060;branch=z9hG4bK0123456789abcdef-8|Max-Forwards: 67
|From: "Erin" <sip:erin@other.example>;tag=0123456789abcdef-7|To: <sip:bob@home.example>|Call-ID: 0123456789abcdef-6|CSeq: 1 INVITE|Contact: <sip:127.0.0.1:5060>
|P-Asserted-Identity: <sip:erin@other.example>|Alert-Info: <urn:alert:service:call-waiting>|Content-Length: 0|
at 0 to 1|SIP/2.0 100 Trying|Via: SIP/2.0/UDP 127.0.0.1:5071;branch=z9hG4bKc3|From: "Carol" <sip:carol@home.example>;tag=t3|To: <sip:bob@home.example>|Call-ID: call3
|CSeq: 7 INVITE|Content-Length: 0|
at 0 to 1|SIP/2.0 486 Busy Here|Via: SIP/2.0/UDP 127.0.0.1:5071;branch=z9hG4bKc3|From: "Carol" <sip:carol@home.example>;tag=t3
|To: <sip:bob@home.example>;tag=0123456789abcdef-9|Call-ID: call3|CSeq: 7 INVITE|Content-Length: 0|
at 200 to 1|SIP/2.0 200 OK|Via: SIP/2.0/UDP 127.0.0.1:5071;branch=z9hG4bKc1|From: "Alice" <sip:alice@home.example>;tag=t1
|To: <sip:bob@home.example>;tag=0123456789abcdef-1|Call-ID: call1|CSeq: 7 INVITE|Contact: <sip:127.0.0.1:5060>|Content-Length: 0|
at 200 to 1|SIP/2.0 200 OK|Via: SIP/2.0/UDP 127.0.0.1:5071;branch=z9hG4bKc2|From: "Erin" <sip:erin@other.example>;tag=t2|To: <sip:bob@home.example>;tag=0123456789abcdef-5
|Call-ID: call2|CSeq: 7 INVITE|Contact: <sip:127.0.0.1:5060>|Content-Length: 0|
at 300 to 1|ACK sip:bob1@127.0.0.1:5071 SIP/2.0|Via: SIP/2.0/UDP 127.0.0.1:5060;branch=z9hG4bK0123456789abcdef-10|Max-Forwards: 67
|From: "Alice" <sip:alice@home.example>;tag=0123456789abcdef-3|To: <sip:bob@home.example>;tag=b1|Call-ID: 0123456789abcdef-2|CSeq: 1 ACK|Content-Length: 0|
at 300 to 1|ACK sip:bob2@127.0.0.1:5071 SIP/2.0|Via: SIP/2.0/UDP 127.0.0.1:5060;branch=z9hG4bK0123456789abcdef-11|Max-Forwards: 67
|From: "Erin" <sip:erin@other.example>;tag=0123456789abcdef-7|To: <sip:bob@home.example>;tag=b2|Call-ID: 0123456789abcdef-6|CSeq: 1 ACK|Content-Length: 0|
at 400 to 1|SIP/2.0 200 OK|Via: SIP/2.0/UDP 127.0.0.1:5071;branch=z9hG4bKy1|From: "Alice" <sip:alice@home.example>;tag=t1
|To: <sip:bob@home.example>;tag=0123456789abcdef-1|Call-ID: call1|CSeq: 8 BYE|Content-Length: 0|
at 400 to 1|BYE sip:bob1@127.0.0.1:5071 SIP/2.0|Via: SIP/2.0/UDP 127.0.0.1:5060;branch=z9hG4bK0123456789abcdef-12|Max-Forwards: 67
|From: "Alice" <sip:alice@home.example>;tag=0123456789abcdef-3|To: <sip:bob@home.example>;tag=b1|Call-ID: 0123456789abcdef-2|CSeq: 2 BYE|Content-Length: 0|
at 400 to 1|SIP/2.0 200 OK|Via: SIP/2.0/UDP 127.0.0.1:5071;branch=z9hG4bKy2|From: "Erin" <sip:erin@other.example>;tag=t2|To: <sip:bob@home.example>;tag=0123456789abcdef-5
|Call-ID: call2|CSeq: 8 BYE|Content-Length: 0|
at 400 to 1|BYE sip:bob2@127.0.0.1:5071 SIP/2.0|Via: SIP/2.0/UDP 127.0.0.1:5060;branch=z9hG4bK0123456789abcdef-13|Max-Forwards: 67
|From: "Erin" <sip:erin@other.example>;tag=0123456789abcdef-7|To: <sip:bob@home.example>;tag=b2|Call-ID: 0123456789abcdef-6|CSeq: 2 BYE|Content-Length: 0|
at 450 to 1|SIP/2.0 100 Trying|Via: SIP/2.0/UDP 127.0.0.1:5071;branch=z9hG4bKc4|From: "Alice" <sip:alice@home.example>;tag=t4|To: <sip:bob@home.example>|Call-ID: call4
|CSeq: 7 INVITE|Content-Length: 0|
at 450 to 1|INVITE sip:bob@home.example SIP/2.0|Via: SIP/2.0/UDP 127.0.0.1:5060;branch=z9hG4bK0123456789abcdef-17|Max-Forwards: 67
|From: "Alice" <sip:alice@home.example>;tag=0123456789abcdef-16|To: <sip:bob@home.example>|Call-ID: 0123456789abcdef-15|CSeq: 1 INVITE|Contact: <sip:127.0.0.1:5060>
|P-Asserted-Identity: <sip:alice@home.example>|Content-Length: 0|
~ Bob is not registered, and diverts then.
# [communication-diversion]
# [[communication-diversion.rule]]
# not-registered = true
# target = "sip:vm@far.example"
at 0 web|PUT /simservs/2 HTTP/1.1|X-3GPP-Asserted-Identity: "sip:bob@home.example"|Content-Type: application/toml|Content-Length: 111|
x5b636f6d6d756e69636174696f6e2d646976657273696f6e5d0a5b5b636f6d6d756e69636174696f6e2d646976657273696f6e2e72756c655d5d0a6e6f742d72656769737465726564203d207472756\
50a746172676574203d20227369703a766d406661722e6578616d706c65220a
at 0 peer 1|REGISTER sip:home.example SIP/2.0|Via: SIP/2.0/UDP 127.0.0.1:5071;branch=z9hG4bKreg|Max-Forwards: 68|From: <sip:scscf@home.example>;tag=r
|To: <sip:bob@home.example>|Call-ID: reg1|CSeq: 1 REGISTER|Expires: 0|Content-Length: 0|
at 2000 peer 1|INVITE sip:bob@home.example SIP/2.0|Via: SIP/2.0/UDP 127.0.0.1:5071;branch=z9hG4bKc1|Max-Forwards: 68|From: "Alice" <sip:alice@home.example>;tag=t1
|To: <sip:bob@home.example>|Call-ID: call1|CSeq: 7 INVITE|Contact: <sip:alice@127.0.0.1:5071>|P-Asserted-Identity: <sip:alice@home.example>|Content-Length: 0|
~ The call goes on with cause 404.
at 0 web|HTTP/1.1 200 OK|Content-Length: 0|Connection: close|
at 0 to 1|SIP/2.0 200 OK|Via: SIP/2.0/UDP 127.0.0.1:5071;branch=z9hG4bKreg|From: <sip:scscf@home.example>;tag=r|To: <sip:bob@home.example>;tag=0123456789abcdef-1
|Call-ID: reg1|CSeq: 1 REGISTER|Content-Length: 0|
at 2000 to 1|SIP/2.0 100 Trying|Via: SIP/2.0/UDP 127.0.0.1:5071;branch=z9hG4bKc1|From: "Alice" <sip:alice@home.example>;tag=t1|To: <sip:bob@home.example>|Call-ID: call1
|CSeq: 7 INVITE|Content-Length: 0|
at 2000 to 1|SIP/2.0 181 Call Is Being Forwarded|Via: SIP/2.0/UDP 127.0.0.1:5071;branch=z9hG4bKc1|From: "Alice" <sip:alice@home.example>;tag=t1
|To: <sip:bob@home.example>;tag=0123456789abcdef-2|Call-ID: call1|CSeq: 7 INVITE|Contact: <sip:127.0.0.1:5060>|History-Info: <sip:bob@home.example>;index=1
|History-Info: <sip:vm@far.example;cause=404>;index=1.1|Content-Length: 0|
at 2000 to 2|INVITE sip:vm@far.example;cause=404 SIP/2.0|Via: SIP/2.0/UDP 127.0.0.1:5060;branch=z9hG4bK0123456789abcdef-5|Max-Forwards: 67
|From: "Alice" <sip:alice@home.example>;tag=0123456789abcdef-4|To: <sip:vm@far.example>|Call-ID: 0123456789abcdef-3|CSeq: 1 INVITE|Contact: <sip:127.0.0.1:5060>
|P-Asserted-Identity: <sip:alice@home.example>|History-Info: <sip:bob@home.example>;index=1|History-Info: <sip:vm@far.example;cause=404>;index=1.1|Content-Length: 0|
~ Bob deflects before he rings.
# [communication-diversion]
# deflection = true
at 0 web|PUT /simservs/2 HTTP/1.1|X-3GPP-Asserted-Identity: "sip:bob@home.example"|Content-Type: application/toml|Content-Length: 44|
x5b636f6d6d756e69636174696f6e2d646976657273696f6e5d0a6465666c656374696f6e203d20747275650a
at 0 peer 1|INVITE sip:bob@home.example SIP/2.0|Via: SIP/2.0/UDP 127.0.0.1:5071;branch=z9hG4bKc1|Max-Forwards: 68|From: "Alice" <sip:alice@home.example>;tag=t1
|To: <sip:bob@home.example>|Call-ID: call1|CSeq: 7 INVITE|Contact: <sip:alice@127.0.0.1:5071>|P-Asserted-Identity: <sip:alice@home.example>|Content-Length: 0|
at 100 peer 1|SIP/2.0 302 Moved|Via: SIP/2.0/UDP 127.0.0.1:5060;branch=z9hG4bK0123456789abcdef-4|From: "Alice" <sip:alice@home.example>;tag=0123456789abcdef-3
|To: <sip:bob@home.example>;tag=bt|Call-ID: 0123456789abcdef-2|CSeq: 1 INVITE|Contact: <sip:vm@far.example>|Content-Length: 0|
~ Cause 480 (RFC 4458 section 2, as 3GPP TS 24.604 section 4.5.2.6 has it).
at 0 web|HTTP/1.1 200 OK|Content-Length: 0|Connection: close|
at 0 to 1|SIP/2.0 100 Trying|Via: SIP/2.0/UDP 127.0.0.1:5071;branch=z9hG4bKc1|From: "Alice" <sip:alice@home.example>;tag=t1|To: <sip:bob@home.example>|Call-ID: call1
|CSeq: 7 INVITE|Content-Length: 0|
at 0 to 1|INVITE sip:bob@home.example SIP/2.0|Via: SIP/2.0/UDP 127.0.0.1:5060;branch=z9hG4bK0123456789abcdef-4|Max-Forwards: 67
|From: "Alice" <sip:alice@home.example>;tag=0123456789abcdef-3|To: <sip:bob@home.example>|Call-ID: 0123456789abcdef-2|CSeq: 1 INVITE|Contact: <sip:127.0.0.1:5060>
|P-Asserted-Identity: <sip:alice@home.example>|Content-Length: 0|
at 100 to 1|ACK sip:bob@home.example SIP/2.0|Via: SIP/2.0/UDP 127.0.0.1:5060;branch=z9hG4bK0123456789abcdef-4|Max-Forwards: 70
|From: "Alice" <sip:alice@home.example>;tag=0123456789abcdef-3|To: <sip:bob@home.example>;tag=bt|Call-ID: 0123456789abcdef-2|CSeq: 1 ACK|Content-Length: 0|
at 100 to 1|SIP/2.0 181 Call Is Being Forwarded|Via: SIP/2.0/UDP 127.0.0.1:5071;branch=z9hG4bKc1|From: "Alice" <sip:alice@home.example>;tag=t1
|To: <sip:bob@home.example>;tag=0123456789abcdef-1|Call-ID: call1|CSeq: 7 INVITE|Contact: <sip:127.0.0.1:5060>|History-Info: <sip:bob@home.example>;index=1
|History-Info: <sip:vm@far.example;cause=480>;index=1.1|Content-Length: 0|
at 100 to 2|INVITE sip:vm@far.example;cause=480 SIP/2.0|Via: SIP/2.0/UDP 127.0.0.1:5060;branch=z9hG4bK0123456789abcdef-7|Max-Forwards: 67
|From: "Alice" <sip:alice@home.example>;tag=0123456789abcdef-6|To: <sip:vm@far.example>|Call-ID: 0123456789abcdef-5|CSeq: 1 INVITE|Contact: <sip:127.0.0.1:5060>
|P-Asserted-Identity: <sip:alice@home.example>|History-Info: <sip:bob@home.example>;index=1|History-Info: <sip:vm@far.example;cause=480>;index=1.1|Content-Length: 0|
~ He deflects when he rang.
# [communication-diversion]
# deflection = true
at 0 web|PUT /simservs/2 HTTP/1.1|X-3GPP-Asserted-Identity: "sip:bob@home.example"|Content-Type: application/toml|Content-Length: 44|
x5b636f6d6d756e69636174696f6e2d646976657273696f6e5d0a6465666c656374696f6e203d20747275650a
at 0 peer 1|INVITE sip:bob@home.example SIP/2.0|Via: SIP/2.0/UDP 127.0.0.1:5071;branch=z9hG4bKc1|Max-Forwards: 68|From: "Alice" <sip:alice@home.example>;tag=t1
|To: <sip:bob@home.example>|Call-ID: call1|CSeq: 7 INVITE|Contact: <sip:alice@127.0.0.1:5071>|P-Asserted-Identity: <sip:alice@home.example>|Content-Length: 0|
at 50 peer 1|SIP/2.0 180 Ringing|Via: SIP/2.0/UDP 127.0.0.1:5060;branch=z9hG4bK0123456789abcdef-4|From: "Alice" <sip:alice@home.example>;tag=0123456789abcdef-3
|To: <sip:bob@home.example>;tag=bt|Call-ID: 0123456789abcdef-2|CSeq: 1 INVITE|Content-Length: 0|
at 100 peer 1|SIP/2.0 302 Moved|Via: SIP/2.0/UDP 127.0.0.1:5060;branch=z9hG4bK0123456789abcdef-4|From: "Alice" <sip:alice@home.example>;tag=0123456789abcdef-3
|To: <sip:bob@home.example>;tag=bt|Call-ID: 0123456789abcdef-2|CSeq: 1 INVITE|Contact: <sip:vm@far.example>|Content-Length: 0|
~ Cause 487.
at 0 web|HTTP/1.1 200 OK|Content-Length: 0|Connection: close|
at 0 to 1|SIP/2.0 100 Trying|Via: SIP/2.0/UDP 127.0.0.1:5071;branch=z9hG4bKc1|From: "Alice" <sip:alice@home.example>;tag=t1|To: <sip:bob@home.example>|Call-ID: call1
|CSeq: 7 INVITE|Content-Length: 0|
at 0 to 1|INVITE sip:bob@home.example SIP/2.0|Via: SIP/2.0/UDP 127.0.0.1:5060;branch=z9hG4bK0123456789abcdef-4|Max-Forwards: 67
|From: "Alice" <sip:alice@home.example>;tag=0123456789abcdef-3|To: <sip:bob@home.example>|Call-ID: 0123456789abcdef-2|CSeq: 1 INVITE|Contact: <sip:127.0.0.1:5060>
|P-Asserted-Identity: <sip:alice@home.example>|Content-Length: 0|
at 50 to 1|SIP/2.0 180 Ringing|Via: SIP/2.0/UDP 127.0.0.1:5071;branch=z9hG4bKc1|From: "Alice" <sip:alice@home.example>;tag=t1
|To: <sip:bob@home.example>;tag=0123456789abcdef-1|Call-ID: call1|CSeq: 7 INVITE|Contact: <sip:127.0.0.1:5060>|Content-Length: 0|
at 100 to 1|ACK sip:bob@home.example SIP/2.0|Via: SIP/2.0/UDP 127.0.0.1:5060;branch=z9hG4bK0123456789abcdef-4|Max-Forwards: 70
|From: "Alice" <sip:alice@home.example>;tag=0123456789abcdef-3|To: <sip:bob@home.example>;tag=bt|Call-ID: 0123456789abcdef-2|CSeq: 1 ACK|Content-Length: 0|
at 100 to 1|SIP/2.0 181 Call Is Being Forwarded|Via: SIP/2.0/UDP 127.0.0.1:5071;branch=z9hG4bKc1|From: "Alice" <sip:alice@home.example>;tag=t1
|To: <sip:bob@home.example>;tag=0123456789abcdef-1|Call-ID: call1|CSeq: 7 INVITE|Contact: <sip:127.0.0.1:5060>|History-Info: <sip:bob@home.example>;index=1
|History-Info: <sip:vm@far.example;cause=487>;index=1.1|Content-Length: 0|
at 100 to 2|INVITE sip:vm@far.example;cause=487 SIP/2.0|Via: SIP/2.0/UDP 127.0.0.1:5060;branch=z9hG4bK0123456789abcdef-7|Max-Forwards: 67
|From: "Alice" <sip:alice@home.example>;tag=0123456789abcdef-6|To: <sip:vm@far.example>|Call-ID: 0123456789abcdef-5|CSeq: 1 INVITE|Contact: <sip:127.0.0.1:5060>
|P-Asserted-Identity: <sip:alice@home.example>|History-Info: <sip:bob@home.example>;index=1|History-Info: <sip:vm@far.example;cause=487>;index=1.1|Content-Length: 0|
~ His record allows no deflection.
# [communication-diversion]
# deflection = false
at 0 web|PUT /simservs/2 HTTP/1.1|X-3GPP-Asserted-Identity: "sip:bob@home.example"|Content-Type: application/toml|Content-Length: 45|
x5b636f6d6d756e69636174696f6e2d646976657273696f6e5d0a6465666c656374696f6e203d2066616c73650a
at 0 peer 1|INVITE sip:bob@home.example SIP/2.0|Via: SIP/2.0/UDP 127.0.0.1:5071;branch=z9hG4bKc1|Max-Forwards: 68|From: "Alice" <sip:alice@home.example>;tag=t1
|To: <sip:bob@home.example>|Call-ID: call1|CSeq: 7 INVITE|Contact: <sip:alice@127.0.0.1:5071>|P-Asserted-Identity: <sip:alice@home.example>|Content-Length: 0|
at 100 peer 1|SIP/2.0 302 Moved|Via: SIP/2.0/UDP 127.0.0.1:5060;branch=z9hG4bK0123456789abcdef-4|From: "Alice" <sip:alice@home.example>;tag=0123456789abcdef-3
|To: <sip:bob@home.example>;tag=bt|Call-ID: 0123456789abcdef-2|CSeq: 1 INVITE|Contact: <sip:vm@far.example>|Content-Length: 0|
~ 480.
at 0 web|HTTP/1.1 200 OK|Content-Length: 0|Connection: close|
at 0 to 1|SIP/2.0 100 Trying|Via: SIP/2.0/UDP 127.0.0.1:5071;branch=z9hG4bKc1|From: "Alice" <sip:alice@home.example>;tag=t1|To: <sip:bob@home.example>|Call-ID: call1
|CSeq: 7 INVITE|Content-Length: 0|
at 0 to 1|INVITE sip:bob@home.example SIP/2.0|Via: SIP/2.0/UDP 127.0.0.1:5060;branch=z9hG4bK0123456789abcdef-4|Max-Forwards: 67
|From: "Alice" <sip:alice@home.example>;tag=0123456789abcdef-3|To: <sip:bob@home.example>|Call-ID: 0123456789abcdef-2|CSeq: 1 INVITE|Contact: <sip:127.0.0.1:5060>
|P-Asserted-Identity: <sip:alice@home.example>|Content-Length: 0|
at 100 to 1|ACK sip:bob@home.example SIP/2.0|Via: SIP/2.0/UDP 127.0.0.1:5060;branch=z9hG4bK0123456789abcdef-4|Max-Forwards: 70
|From: "Alice" <sip:alice@home.example>;tag=0123456789abcdef-3|To: <sip:bob@home.example>;tag=bt|Call-ID: 0123456789abcdef-2|CSeq: 1 ACK|Content-Length: 0|
at 100 to 1|SIP/2.0 480 Temporarily Unavailable|Via: SIP/2.0/UDP 127.0.0.1:5071;branch=z9hG4bKc1|From: "Alice" <sip:alice@home.example>;tag=t1
|To: <sip:bob@home.example>;tag=0123456789abcdef-1|Call-ID: call1|CSeq: 7 INVITE|Content-Length: 0|
~ A call with a history of 32 entries comes to bob, who diverts it.
# [communication-diversion]
# [[communication-diversion.rule]]
# target = "sip:vm@far.example;cause=486;x=y"
at 0 web|PUT /simservs/2 HTTP/1.1|X-3GPP-Asserted-Identity: "sip:bob@home.example"|Content-Type: application/toml|Content-Length: 103|
x5b636f6d6d756e69636174696f6e2d646976657273696f6e5d0a5b5b636f6d6d756e69636174696f6e2d646976657273696f6e2e72756c655d5d0a746172676574203d20227369703a766d406661722\
e6578616d706c653b63617573653d3438363b783d79220a
at 1 peer 1|INVITE sip:bob@home.example SIP/2.0|Via: SIP/2.0/UDP 127.0.0.1:5071;branch=z9hG4bKh|Max-Forwards: 70|From: "Erin" <sip:erin@other.example>;tag=a
|To: <sip:bob@home.example>|Call-ID: c1|CSeq: 1 INVITE|Contact: <sip:x@127.0.0.1:5071>|P-Asserted-Identity: <sip:erin@other.example>
|History-Info: <sip:h1@home.example>;index=1.1|History-Info: <sip:h2@home.example>;index=1.2|History-Info: <sip:h3@home.example>;index=1.3
|History-Info: <sip:h4@home.example>;index=1.4|History-Info: <sip:h5@home.example>;index=1.5|History-Info: <sip:h6@home.example>;index=1.6
|History-Info: <sip:h7@home.example>;index=1.7|History-Info: <sip:h8@home.example>;index=1.8|History-Info: <sip:h9@home.example>;index=1.9
|History-Info: <sip:h10@home.example>;index=1.10|History-Info: <sip:h11@home.example>;index=1.11|History-Info: <sip:h12@home.example>;index=1.12
|History-Info: <sip:h13@home.example>;index=1.13|History-Info: <sip:h14@home.example>;index=1.14|History-Info: <sip:h15@home.example>;index=1.15
|History-Info: <sip:h16@home.example>;index=1.16|History-Info: <sip:h17@home.example>;index=1.17|History-Info: <sip:h18@home.example>;index=1.18
|History-Info: <sip:h19@home.example>;index=1.19|History-Info: <sip:h20@home.example>;index=1.20|History-Info: <sip:h21@home.example>;index=1.21
|History-Info: <sip:h22@home.example>;index=1.22|History-Info: <sip:h23@home.example>;index=1.23|History-Info: <sip:h24@home.example>;index=1.24
|History-Info: <sip:h25@home.example>;index=1.25|History-Info: <sip:h26@home.example>;index=1.26|History-Info: <sip:h27@home.example>;index=1.27
|History-Info: <sip:h28@home.example>;index=1.28|History-Info: <sip:h29@home.example>;index=1.29|History-Info: <sip:h30@home.example>;index=1.30
|History-Info: <sip:h31@home.example>;index=1.31|History-Info: <sip:h32@home.example>;index=1.32|Content-Length: 0|
~ The history has 33 then.
at 0 web|HTTP/1.1 200 OK|Content-Length: 0|Connection: close|
at 1 to 1|SIP/2.0 100 Trying|Via: SIP/2.0/UDP 127.0.0.1:5071;branch=z9hG4bKh|From: "Erin" <sip:erin@other.example>;tag=a|To: <sip:bob@home.example>|Call-ID: c1
|CSeq: 1 INVITE|Content-Length: 0|
at 1 to 1|SIP/2.0 181 Call Is Being Forwarded|Via: SIP/2.0/UDP 127.0.0.1:5071;branch=z9hG4bKh|From: "Erin" <sip:erin@other.example>;tag=a
|To: <sip:bob@home.example>;tag=0123456789abcdef-1|Call-ID: c1|CSeq: 1 INVITE|Contact: <sip:127.0.0.1:5060>|History-Info: <sip:h1@home.example>;index=1.1
|History-Info: <sip:h2@home.example>;index=1.2|History-Info: <sip:h3@home.example>;index=1.3|History-Info: <sip:h4@home.example>;index=1.4
|History-Info: <sip:h5@home.example>;index=1.5|History-Info: <sip:h6@home.example>;index=1.6|History-Info: <sip:h7@home.example>;index=1.7
|History-Info: <sip:h8@home.example>;index=1.8|History-Info: <sip:h9@home.example>;index=1.9|History-Info: <sip:h10@home.example>;index=1.10
|History-Info: <sip:h11@home.example>;index=1.11|History-Info: <sip:h12@home.example>;index=1.12|History-Info: <sip:h13@home.example>;index=1.13
|History-Info: <sip:h14@home.example>;index=1.14|History-Info: <sip:h15@home.example>;index=1.15|History-Info: <sip:h16@home.example>;index=1.16
|History-Info: <sip:h17@home.example>;index=1.17|History-Info: <sip:h18@home.example>;index=1.18|History-Info: <sip:h19@home.example>;index=1.19
|History-Info: <sip:h20@home.example>;index=1.20|History-Info: <sip:h21@home.example>;index=1.21|History-Info: <sip:h22@home.example>;index=1.22
|History-Info: <sip:h23@home.example>;index=1.23|History-Info: <sip:h24@home.example>;index=1.24|History-Info: <sip:h25@home.example>;index=1.25
|History-Info: <sip:h26@home.example>;index=1.26|History-Info: <sip:h27@home.example>;index=1.27|History-Info: <sip:h28@home.example>;index=1.28
|History-Info: <sip:h29@home.example>;index=1.29|History-Info: <sip:h30@home.example>;index=1.30|History-Info: <sip:h31@home.example>;index=1.31
|History-Info: <sip:h32@home.example>;index=1.32|History-Info: <sip:vm@far.example;x=y;cause=302>;index=1.32.1|Content-Length: 0|
at 1 to 2|INVITE sip:vm@far.example;x=y;cause=302 SIP/2.0|Via: SIP/2.0/UDP 127.0.0.1:5060;branch=z9hG4bK0123456789abcdef-4|Max-Forwards: 69
|From: "Erin" <sip:erin@other.example>;tag=0123456789abcdef-3|To: <sip:vm@far.example;x=y>|Call-ID: 0123456789abcdef-2|CSeq: 1 INVITE|Contact: <sip:127.0.0.1:5060>
|P-Asserted-Identity: <sip:erin@other.example>|History-Info: <sip:h1@home.example>;index=1.1|History-Info: <sip:h2@home.example>;index=1.2
|History-Info: <sip:h3@home.example>;index=1.3|History-Info: <sip:h4@home.example>;index=1.4|History-Info: <sip:h5@home.example>;index=1.5
|History-Info: <sip:h6@home.example>;index=1.6|History-Info: <sip:h7@home.example>;index=1.7|History-Info: <sip:h8@home.example>;index=1.8
|History-Info: <sip:h9@home.example>;index=1.9|History-Info: <sip:h10@home.example>;index=1.10|History-Info: <sip:h11@home.example>;index=1.11
|History-Info: <sip:h12@home.example>;index=1.12|History-Info: <sip:h13@home.example>;index=1.13|History-Info: <sip:h14@home.example>;index=1.14
|History-Info: <sip:h15@home.example>;index=1.15|History-Info: <sip:h16@home.example>;index=1.16|History-Info: <sip:h17@home.example>;index=1.17
|History-Info: <sip:h18@home.example>;index=1.18|History-Info: <sip:h19@home.example>;index=1.19|History-Info: <sip:h20@home.example>;index=1.20
|History-Info: <sip:h21@home.example>;index=1.21|History-Info: <sip:h22@home.example>;index=1.22|History-Info: <sip:h23@home.example>;index=1.23
|History-Info: <sip:h24@home.example>;index=1.24|History-Info: <sip:h25@home.example>;index=1.25|History-Info: <sip:h26@home.example>;index=1.26
|History-Info: <sip:h27@home.example>;index=1.27|History-Info: <sip:h28@home.example>;index=1.28|History-Info: <sip:h29@home.example>;index=1.29
|History-Info: <sip:h30@home.example>;index=1.30|History-Info: <sip:h31@home.example>;index=1.31|History-Info: <sip:h32@home.example>;index=1.32
|History-Info: <sip:vm@far.example;x=y;cause=302>;index=1.32.1|Content-Length: 0|
"#;

#[test]
fn diverted_or_waiting(rt: HostRuntime) {
    assert_right(&rt, "DIVERTED", wrong_run(rt.alloc(), DIVERTED));
}

/// Records of the second version.
const SECOND: &[u8] =
    br#"~ Alice bars calls to other countries, and calls one (TS 24.611 section 4.9.1.3).
=further:country 49;route +49 2;
# version = 2
# [outgoing-communication-barring]
# [[outgoing-communication-barring.rule]]
# international = true
# allow = false
at 0 web|PUT /simservs/1 HTTP/1.1|X-3GPP-Asserted-Identity: "sip:alice@home.example"|Content-Type: application/toml|Content-Length: 120|
x76657273696f6e203d20320a5b6f7574676f696e672d636f6d6d756e69636174696f6e2d62617272696e675d0a5b5b6f7574676f696e672d636f6d6d756e69636174696f6e2d62617272696e672e727\
56c655d5d0a696e7465726e6174696f6e616c203d20747275650a616c6c6f77203d2066616c73650a
at 0 peer 1|INVITE tel:+33155 SIP/2.0|Via: SIP/2.0/UDP 127.0.0.1:5071;branch=z9hG4bKc1|Max-Forwards: 68|From: "Alice" <sip:alice@home.example>;tag=t1|To: <tel:+33155>
|Call-ID: call1|CSeq: 7 INVITE|Contact: <sip:alice@127.0.0.1:5071>|P-Asserted-Identity: <sip:alice@home.example>|Content-Length: 0|
~ 603.
at 0 web|HTTP/1.1 200 OK|Content-Length: 0|Connection: close|
at 0 to 1|SIP/2.0 100 Trying|Via: SIP/2.0/UDP 127.0.0.1:5071;branch=z9hG4bKc1|From: "Alice" <sip:alice@home.example>;tag=t1|To: <tel:+33155>|Call-ID: call1|CSeq: 7 INVITE
|Content-Length: 0|
at 0 to 1|SIP/2.0 603 Decline|Via: SIP/2.0/UDP 127.0.0.1:5071;branch=z9hG4bKc1|From: "Alice" <sip:alice@home.example>;tag=t1|To: <tel:+33155>;tag=0123456789abcdef-1
|Call-ID: call1|CSeq: 7 INVITE|Content-Length: 0|
~ She calls a number of her own country.
=further:country 49;route +49 2;
# version = 2
# [outgoing-communication-barring]
# [[outgoing-communication-barring.rule]]
# international = true
# allow = false
at 0 web|PUT /simservs/1 HTTP/1.1|X-3GPP-Asserted-Identity: "sip:alice@home.example"|Content-Type: application/toml|Content-Length: 120|
x76657273696f6e203d20320a5b6f7574676f696e672d636f6d6d756e69636174696f6e2d62617272696e675d0a5b5b6f7574676f696e672d636f6d6d756e69636174696f6e2d62617272696e672e727\
56c655d5d0a696e7465726e6174696f6e616c203d20747275650a616c6c6f77203d2066616c73650a
at 0 peer 1|INVITE tel:+4930222 SIP/2.0|Via: SIP/2.0/UDP 127.0.0.1:5071;branch=z9hG4bKc1|Max-Forwards: 68|From: "Alice" <sip:alice@home.example>;tag=t1|To: <tel:+4930222>
|Call-ID: call1|CSeq: 7 INVITE|Contact: <sip:alice@127.0.0.1:5071>|P-Asserted-Identity: <sip:alice@home.example>|Content-Length: 0|
~ It is offered.
at 0 web|HTTP/1.1 200 OK|Content-Length: 0|Connection: close|
at 0 to 1|SIP/2.0 100 Trying|Via: SIP/2.0/UDP 127.0.0.1:5071;branch=z9hG4bKc1|From: "Alice" <sip:alice@home.example>;tag=t1|To: <tel:+4930222>|Call-ID: call1
|CSeq: 7 INVITE|Content-Length: 0|
at 0 to 2|INVITE tel:+4930222 SIP/2.0|Via: SIP/2.0/UDP 127.0.0.1:5060;branch=z9hG4bK0123456789abcdef-4|Max-Forwards: 67
|From: "Alice" <sip:alice@home.example>;tag=0123456789abcdef-3|To: <tel:+4930222>|Call-ID: 0123456789abcdef-2|CSeq: 1 INVITE|Contact: <sip:127.0.0.1:5060>
|P-Asserted-Identity: <sip:alice@home.example>|Content-Length: 0|
~ Bob diverts everybody to carol, whose own bound is one diversion, and who diverts everybody (TS 24.604 section 4.5.2.6).
# [communication-diversion]
# [[communication-diversion.rule]]
# target = "sip:carol@home.example"
at 0 web|PUT /simservs/2 HTTP/1.1|X-3GPP-Asserted-Identity: "sip:bob@home.example"|Content-Type: application/toml|Content-Length: 93|
x5b636f6d6d756e69636174696f6e2d646976657273696f6e5d0a5b5b636f6d6d756e69636174696f6e2d646976657273696f6e2e72756c655d5d0a746172676574203d20227369703a6361726f6c406\
86f6d652e6578616d706c65220a
# version = 2
# [communication-diversion]
# bound = 1
# [[communication-diversion.rule]]
# target = "sip:vm@far.example"
at 0 web|PUT /simservs/3 HTTP/1.1|X-3GPP-Asserted-Identity: "sip:carol@home.example"|Content-Type: application/toml|Content-Length: 111|
x76657273696f6e203d20320a5b636f6d6d756e69636174696f6e2d646976657273696f6e5d0a626f756e64203d20310a5b5b636f6d6d756e69636174696f6e2d646976657273696f6e2e72756c655d5\
d0a746172676574203d20227369703a766d406661722e6578616d706c65220a
at 0 peer 1|INVITE sip:bob@home.example SIP/2.0|Via: SIP/2.0/UDP 127.0.0.1:5071;branch=z9hG4bKc1|Max-Forwards: 68|From: "Alice" <sip:alice@home.example>;tag=t1
|To: <sip:bob@home.example>|Call-ID: call1|CSeq: 7 INVITE|Contact: <sip:alice@127.0.0.1:5071>|P-Asserted-Identity: <sip:alice@home.example>|Content-Length: 0|
~ 480: the call was diverted once.
at 0 web|HTTP/1.1 200 OK|Content-Length: 0|Connection: close|
at 0 web|HTTP/1.1 200 OK|Content-Length: 0|Connection: close|
at 0 to 1|SIP/2.0 100 Trying|Via: SIP/2.0/UDP 127.0.0.1:5071;branch=z9hG4bKc1|From: "Alice" <sip:alice@home.example>;tag=t1|To: <sip:bob@home.example>|Call-ID: call1
|CSeq: 7 INVITE|Content-Length: 0|
at 0 to 1|SIP/2.0 181 Call Is Being Forwarded|Via: SIP/2.0/UDP 127.0.0.1:5071;branch=z9hG4bKc1|From: "Alice" <sip:alice@home.example>;tag=t1
|To: <sip:bob@home.example>;tag=0123456789abcdef-1|Call-ID: call1|CSeq: 7 INVITE|Contact: <sip:127.0.0.1:5060>|History-Info: <sip:bob@home.example>;index=1
|History-Info: <sip:carol@home.example;cause=302>;index=1.1|Content-Length: 0|
at 0 to 1|SIP/2.0 480 Temporarily Unavailable|Via: SIP/2.0/UDP 127.0.0.1:5071;branch=z9hG4bKc1|From: "Alice" <sip:alice@home.example>;tag=t1
|To: <sip:bob@home.example>;tag=0123456789abcdef-1|Call-ID: call1|CSeq: 7 INVITE|Content-Length: 0|
~ Bob's own bound is none.
# version = 2
# [communication-diversion]
# bound = 0
# [[communication-diversion.rule]]
# target = "sip:carol@home.example"
at 0 web|PUT /simservs/2 HTTP/1.1|X-3GPP-Asserted-Identity: "sip:bob@home.example"|Content-Type: application/toml|Content-Length: 115|
x76657273696f6e203d20320a5b636f6d6d756e69636174696f6e2d646976657273696f6e5d0a626f756e64203d20300a5b5b636f6d6d756e69636174696f6e2d646976657273696f6e2e72756c655d5\
d0a746172676574203d20227369703a6361726f6c40686f6d652e6578616d706c65220a
at 0 peer 1|INVITE sip:bob@home.example SIP/2.0|Via: SIP/2.0/UDP 127.0.0.1:5071;branch=z9hG4bKc1|Max-Forwards: 68|From: "Alice" <sip:alice@home.example>;tag=t1
|To: <sip:bob@home.example>|Call-ID: call1|CSeq: 7 INVITE|Contact: <sip:alice@127.0.0.1:5071>|P-Asserted-Identity: <sip:alice@home.example>|Content-Length: 0|
~ 480.
at 0 web|HTTP/1.1 200 OK|Content-Length: 0|Connection: close|
at 0 to 1|SIP/2.0 100 Trying|Via: SIP/2.0/UDP 127.0.0.1:5071;branch=z9hG4bKc1|From: "Alice" <sip:alice@home.example>;tag=t1|To: <sip:bob@home.example>|Call-ID: call1
|CSeq: 7 INVITE|Content-Length: 0|
at 0 to 1|SIP/2.0 480 Temporarily Unavailable|Via: SIP/2.0/UDP 127.0.0.1:5071;branch=z9hG4bKc1|From: "Alice" <sip:alice@home.example>;tag=t1
|To: <sip:bob@home.example>;tag=0123456789abcdef-1|Call-ID: call1|CSeq: 7 INVITE|Content-Length: 0|
~ Bob diverts everybody to carol, who bars what was diverted (TS 24.611 section 4.9.1.3).
# [communication-diversion]
# [[communication-diversion.rule]]
# target = "sip:carol@home.example"
at 0 web|PUT /simservs/2 HTTP/1.1|X-3GPP-Asserted-Identity: "sip:bob@home.example"|Content-Type: application/toml|Content-Length: 93|
x5b636f6d6d756e69636174696f6e2d646976657273696f6e5d0a5b5b636f6d6d756e69636174696f6e2d646976657273696f6e2e72756c655d5d0a746172676574203d20227369703a6361726f6c406\
86f6d652e6578616d706c65220a
# version = 2
# [incoming-communication-barring]
# [[incoming-communication-barring.rule]]
# communication-diverted = true
# allow = false
at 0 web|PUT /simservs/3 HTTP/1.1|X-3GPP-Asserted-Identity: "sip:carol@home.example"|Content-Type: application/toml|Content-Length: 129|
x76657273696f6e203d20320a5b696e636f6d696e672d636f6d6d756e69636174696f6e2d62617272696e675d0a5b5b696e636f6d696e672d636f6d6d756e69636174696f6e2d62617272696e672e727\
56c655d5d0a636f6d6d756e69636174696f6e2d6469766572746564203d20747275650a616c6c6f77203d2066616c73650a
at 0 peer 1|INVITE sip:bob@home.example SIP/2.0|Via: SIP/2.0/UDP 127.0.0.1:5071;branch=z9hG4bKc1|Max-Forwards: 68|From: "Alice" <sip:alice@home.example>;tag=t1
|To: <sip:bob@home.example>|Call-ID: call1|CSeq: 7 INVITE|Contact: <sip:alice@127.0.0.1:5071>|P-Asserted-Identity: <sip:alice@home.example>|Content-Length: 0|
~ 603.
at 0 web|HTTP/1.1 200 OK|Content-Length: 0|Connection: close|
at 0 web|HTTP/1.1 200 OK|Content-Length: 0|Connection: close|
at 0 to 1|SIP/2.0 100 Trying|Via: SIP/2.0/UDP 127.0.0.1:5071;branch=z9hG4bKc1|From: "Alice" <sip:alice@home.example>;tag=t1|To: <sip:bob@home.example>|Call-ID: call1
|CSeq: 7 INVITE|Content-Length: 0|
at 0 to 1|SIP/2.0 181 Call Is Being Forwarded|Via: SIP/2.0/UDP 127.0.0.1:5071;branch=z9hG4bKc1|From: "Alice" <sip:alice@home.example>;tag=t1
|To: <sip:bob@home.example>;tag=0123456789abcdef-1|Call-ID: call1|CSeq: 7 INVITE|Contact: <sip:127.0.0.1:5060>|History-Info: <sip:bob@home.example>;index=1
|History-Info: <sip:carol@home.example;cause=302>;index=1.1|Content-Length: 0|
at 0 to 1|SIP/2.0 603 Decline|Via: SIP/2.0/UDP 127.0.0.1:5071;branch=z9hG4bKc1|From: "Alice" <sip:alice@home.example>;tag=t1
|To: <sip:bob@home.example>;tag=0123456789abcdef-1|Call-ID: call1|CSeq: 7 INVITE|Content-Length: 0|
~ Alice calls carol herself.
# version = 2
# [incoming-communication-barring]
# [[incoming-communication-barring.rule]]
# communication-diverted = true
# allow = false
at 0 web|PUT /simservs/3 HTTP/1.1|X-3GPP-Asserted-Identity: "sip:carol@home.example"|Content-Type: application/toml|Content-Length: 129|
x76657273696f6e203d20320a5b696e636f6d696e672d636f6d6d756e69636174696f6e2d62617272696e675d0a5b5b696e636f6d696e672d636f6d6d756e69636174696f6e2d62617272696e672e727\
56c655d5d0a636f6d6d756e69636174696f6e2d6469766572746564203d20747275650a616c6c6f77203d2066616c73650a
at 0 peer 1|INVITE sip:carol@home.example SIP/2.0|Via: SIP/2.0/UDP 127.0.0.1:5071;branch=z9hG4bKc1|Max-Forwards: 68|From: "Alice" <sip:alice@home.example>;tag=t1
|To: <sip:carol@home.example>|Call-ID: call1|CSeq: 7 INVITE|Contact: <sip:alice@127.0.0.1:5071>|P-Asserted-Identity: <sip:alice@home.example>|Content-Length: 0|
~ It is offered.
at 0 web|HTTP/1.1 200 OK|Content-Length: 0|Connection: close|
at 0 to 1|SIP/2.0 100 Trying|Via: SIP/2.0/UDP 127.0.0.1:5071;branch=z9hG4bKc1|From: "Alice" <sip:alice@home.example>;tag=t1|To: <sip:carol@home.example>|Call-ID: call1
|CSeq: 7 INVITE|Content-Length: 0|
at 0 to 1|INVITE sip:carol@home.example SIP/2.0|Via: SIP/2.0/UDP 127.0.0.1:5060;branch=z9hG4bK0123456789abcdef-4|Max-Forwards: 67
|From: "Alice" <sip:alice@home.example>;tag=0123456789abcdef-3|To: <sip:carol@home.example>|Call-ID: 0123456789abcdef-2|CSeq: 1 INVITE|Contact: <sip:127.0.0.1:5060>
|P-Asserted-Identity: <sip:alice@home.example>|Content-Length: 0|
~ The call was diverted to carol before it came here.
# version = 2
# [incoming-communication-barring]
# [[incoming-communication-barring.rule]]
# communication-diverted = true
# allow = false
at 0 web|PUT /simservs/3 HTTP/1.1|X-3GPP-Asserted-Identity: "sip:carol@home.example"|Content-Type: application/toml|Content-Length: 129|
x76657273696f6e203d20320a5b696e636f6d696e672d636f6d6d756e69636174696f6e2d62617272696e675d0a5b5b696e636f6d696e672d636f6d6d756e69636174696f6e2d62617272696e672e727\
56c655d5d0a636f6d6d756e69636174696f6e2d6469766572746564203d20747275650a616c6c6f77203d2066616c73650a
at 0 peer 1|INVITE sip:carol@home.example SIP/2.0|Via: SIP/2.0/UDP 127.0.0.1:5071;branch=z9hG4bKc1|Max-Forwards: 68|From: "Alice" <sip:alice@home.example>;tag=t1
|To: <sip:carol@home.example>|Call-ID: call1|CSeq: 7 INVITE|Contact: <sip:alice@127.0.0.1:5071>|P-Asserted-Identity: <sip:alice@home.example>
|History-Info: <sip:dave@far.example>;index=1|History-Info: <sip:carol@home.example;cause=302>;index=1.1|Content-Length: 0|
~ 603.
at 0 web|HTTP/1.1 200 OK|Content-Length: 0|Connection: close|
at 0 to 1|SIP/2.0 100 Trying|Via: SIP/2.0/UDP 127.0.0.1:5071;branch=z9hG4bKc1|From: "Alice" <sip:alice@home.example>;tag=t1|To: <sip:carol@home.example>|Call-ID: call1
|CSeq: 7 INVITE|Content-Length: 0|
at 0 to 1|SIP/2.0 603 Decline|Via: SIP/2.0/UDP 127.0.0.1:5071;branch=z9hG4bKc1|From: "Alice" <sip:alice@home.example>;tag=t1
|To: <sip:carol@home.example>;tag=0123456789abcdef-1|Call-ID: call1|CSeq: 7 INVITE|Content-Length: 0|
~ A call that was diverted once comes to bob, who is busy, diverts then, and whose own bound is one.
# version = 2
# [communication-diversion]
# bound = 1
# [[communication-diversion.rule]]
# busy = true
# target = "sip:vm@far.example"
at 0 web|PUT /simservs/2 HTTP/1.1|X-3GPP-Asserted-Identity: "sip:bob@home.example"|Content-Type: application/toml|Content-Length: 123|
x76657273696f6e203d20320a5b636f6d6d756e69636174696f6e2d646976657273696f6e5d0a626f756e64203d20310a5b5b636f6d6d756e69636174696f6e2d646976657273696f6e2e72756c655d5\
d0a62757379203d20747275650a746172676574203d20227369703a766d406661722e6578616d706c65220a
at 0 peer 1|INVITE sip:bob@home.example SIP/2.0|Via: SIP/2.0/UDP 127.0.0.1:5071;branch=z9hG4bKc1|Max-Forwards: 68|From: "Alice" <sip:alice@home.example>;tag=t1
|To: <sip:bob@home.example>|Call-ID: call1|CSeq: 7 INVITE|Contact: <sip:alice@127.0.0.1:5071>|P-Asserted-Identity: <sip:alice@home.example>
|History-Info: <sip:dave@far.example>;index=1|History-Info: <sip:bob@home.example;cause=302>;index=1.1|Content-Length: 0|
at 100 peer 1|SIP/2.0 486 Busy Here|Via: SIP/2.0/UDP 127.0.0.1:5060;branch=z9hG4bK0123456789abcdef-4|From: "Alice" <sip:alice@home.example>;tag=0123456789abcdef-3
|To: <sip:bob@home.example>;tag=b|Call-ID: 0123456789abcdef-2|CSeq: 1 INVITE|Server: phone|Content-Length: 0|
~ It is offered, and then refused as busy, by a final of the server.
at 0 web|HTTP/1.1 200 OK|Content-Length: 0|Connection: close|
at 0 to 1|SIP/2.0 100 Trying|Via: SIP/2.0/UDP 127.0.0.1:5071;branch=z9hG4bKc1|From: "Alice" <sip:alice@home.example>;tag=t1|To: <sip:bob@home.example>|Call-ID: call1
|CSeq: 7 INVITE|Content-Length: 0|
at 0 to 1|INVITE sip:bob@home.example SIP/2.0|Via: SIP/2.0/UDP 127.0.0.1:5060;branch=z9hG4bK0123456789abcdef-4|Max-Forwards: 67
|From: "Alice" <sip:alice@home.example>;tag=0123456789abcdef-3|To: <sip:bob@home.example>|Call-ID: 0123456789abcdef-2|CSeq: 1 INVITE|Contact: <sip:127.0.0.1:5060>
|P-Asserted-Identity: <sip:alice@home.example>|History-Info: <sip:dave@far.example>;index=1|History-Info: <sip:bob@home.example;cause=302>;index=1.1|Content-Length: 0|
at 100 to 1|ACK sip:bob@home.example SIP/2.0|Via: SIP/2.0/UDP 127.0.0.1:5060;branch=z9hG4bK0123456789abcdef-4|Max-Forwards: 70
|From: "Alice" <sip:alice@home.example>;tag=0123456789abcdef-3|To: <sip:bob@home.example>;tag=b|Call-ID: 0123456789abcdef-2|CSeq: 1 ACK|Content-Length: 0|
at 100 to 1|SIP/2.0 486 Busy Here|Via: SIP/2.0/UDP 127.0.0.1:5071;branch=z9hG4bKc1|From: "Alice" <sip:alice@home.example>;tag=t1
|To: <sip:bob@home.example>;tag=0123456789abcdef-1|Call-ID: call1|CSeq: 7 INVITE|Content-Length: 0|
~ Bob diverts on Thursdays from one to two, by a clock that is an hour ahead; 1970 began on one.
# version = 2
# [communication-diversion]
# [[communication-diversion.rule]]
# days = ["thu"]
# day-from = "01:00"
# day-until = "02:00"
# offset = 60
# target = "sip:vm@far.example"
at 0 web|PUT /simservs/2 HTTP/1.1|X-3GPP-Asserted-Identity: "sip:bob@home.example"|Content-Type: application/toml|Content-Length: 167|
x76657273696f6e203d20320a5b636f6d6d756e69636174696f6e2d646976657273696f6e5d0a5b5b636f6d6d756e69636174696f6e2d646976657273696f6e2e72756c655d5d0a64617973203d205b2\
2746875225d0a6461792d66726f6d203d202230313a3030220a6461792d756e74696c203d202230323a3030220a6f6666736574203d2036300a746172676574203d20227369703a766d406661722e657\
8616d706c65220a
at 0 peer 1|INVITE sip:bob@home.example SIP/2.0|Via: SIP/2.0/UDP 127.0.0.1:5071;branch=z9hG4bKc1|Max-Forwards: 68|From: "Alice" <sip:alice@home.example>;tag=t1
|To: <sip:bob@home.example>|Call-ID: call1|CSeq: 7 INVITE|Contact: <sip:alice@127.0.0.1:5071>|P-Asserted-Identity: <sip:alice@home.example>|Content-Length: 0|
~ It is one o'clock there.
at 0 web|HTTP/1.1 200 OK|Content-Length: 0|Connection: close|
at 0 to 1|SIP/2.0 100 Trying|Via: SIP/2.0/UDP 127.0.0.1:5071;branch=z9hG4bKc1|From: "Alice" <sip:alice@home.example>;tag=t1|To: <sip:bob@home.example>|Call-ID: call1
|CSeq: 7 INVITE|Content-Length: 0|
at 0 to 1|SIP/2.0 181 Call Is Being Forwarded|Via: SIP/2.0/UDP 127.0.0.1:5071;branch=z9hG4bKc1|From: "Alice" <sip:alice@home.example>;tag=t1
|To: <sip:bob@home.example>;tag=0123456789abcdef-1|Call-ID: call1|CSeq: 7 INVITE|Contact: <sip:127.0.0.1:5060>|History-Info: <sip:bob@home.example>;index=1
|History-Info: <sip:vm@far.example;cause=302>;index=1.1|Content-Length: 0|
at 0 to 2|INVITE sip:vm@far.example;cause=302 SIP/2.0|Via: SIP/2.0/UDP 127.0.0.1:5060;branch=z9hG4bK0123456789abcdef-4|Max-Forwards: 67
|From: "Alice" <sip:alice@home.example>;tag=0123456789abcdef-3|To: <sip:vm@far.example>|Call-ID: 0123456789abcdef-2|CSeq: 1 INVITE|Contact: <sip:127.0.0.1:5060>
|P-Asserted-Identity: <sip:alice@home.example>|History-Info: <sip:bob@home.example>;index=1|History-Info: <sip:vm@far.example;cause=302>;index=1.1|Content-Length: 0|
~ The same an hour later.
# version = 2
# [communication-diversion]
# [[communication-diversion.rule]]
# days = ["thu"]
# day-from = "01:00"
# day-until = "02:00"
# offset = 60
# target = "sip:vm@far.example"
at 0 web|PUT /simservs/2 HTTP/1.1|X-3GPP-Asserted-Identity: "sip:bob@home.example"|Content-Type: application/toml|Content-Length: 167|
x76657273696f6e203d20320a5b636f6d6d756e69636174696f6e2d646976657273696f6e5d0a5b5b636f6d6d756e69636174696f6e2d646976657273696f6e2e72756c655d5d0a64617973203d205b2\
2746875225d0a6461792d66726f6d203d202230313a3030220a6461792d756e74696c203d202230323a3030220a6f6666736574203d2036300a746172676574203d20227369703a766d406661722e657\
8616d706c65220a
at 3600000 peer 1|INVITE sip:bob@home.example SIP/2.0|Via: SIP/2.0/UDP 127.0.0.1:5071;branch=z9hG4bKc1|Max-Forwards: 68|From: "Alice" <sip:alice@home.example>;tag=t1
|To: <sip:bob@home.example>|Call-ID: call1|CSeq: 7 INVITE|Contact: <sip:alice@127.0.0.1:5071>|P-Asserted-Identity: <sip:alice@home.example>|Content-Length: 0|
~ It is two, and the call is offered.
at 0 web|HTTP/1.1 200 OK|Content-Length: 0|Connection: close|
at 3600000 to 1|SIP/2.0 100 Trying|Via: SIP/2.0/UDP 127.0.0.1:5071;branch=z9hG4bKc1|From: "Alice" <sip:alice@home.example>;tag=t1|To: <sip:bob@home.example>
|Call-ID: call1|CSeq: 7 INVITE|Content-Length: 0|
at 3600000 to 1|INVITE sip:bob@home.example SIP/2.0|Via: SIP/2.0/UDP 127.0.0.1:5060;branch=z9hG4bK0123456789abcdef-4|Max-Forwards: 67
|From: "Alice" <sip:alice@home.example>;tag=0123456789abcdef-3|To: <sip:bob@home.example>|Call-ID: 0123456789abcdef-2|CSeq: 1 INVITE|Contact: <sip:127.0.0.1:5060>
|P-Asserted-Identity: <sip:alice@home.example>|Content-Length: 0|
~ The same by the clock of UTC, at once.
# version = 2
# [communication-diversion]
# [[communication-diversion.rule]]
# days = ["thu"]
# day-from = "01:00"
# day-until = "02:00"
# offset = 0
# target = "sip:vm@far.example"
at 0 web|PUT /simservs/2 HTTP/1.1|X-3GPP-Asserted-Identity: "sip:bob@home.example"|Content-Type: application/toml|Content-Length: 166|
x76657273696f6e203d20320a5b636f6d6d756e69636174696f6e2d646976657273696f6e5d0a5b5b636f6d6d756e69636174696f6e2d646976657273696f6e2e72756c655d5d0a64617973203d205b2\
2746875225d0a6461792d66726f6d203d202230313a3030220a6461792d756e74696c203d202230323a3030220a6f6666736574203d20300a746172676574203d20227369703a766d406661722e65786\
16d706c65220a
at 0 peer 1|INVITE sip:bob@home.example SIP/2.0|Via: SIP/2.0/UDP 127.0.0.1:5071;branch=z9hG4bKc1|Max-Forwards: 68|From: "Alice" <sip:alice@home.example>;tag=t1
|To: <sip:bob@home.example>|Call-ID: call1|CSeq: 7 INVITE|Contact: <sip:alice@127.0.0.1:5071>|P-Asserted-Identity: <sip:alice@home.example>|Content-Length: 0|
~ It is midnight.
at 0 web|HTTP/1.1 200 OK|Content-Length: 0|Connection: close|
at 0 to 1|SIP/2.0 100 Trying|Via: SIP/2.0/UDP 127.0.0.1:5071;branch=z9hG4bKc1|From: "Alice" <sip:alice@home.example>;tag=t1|To: <sip:bob@home.example>|Call-ID: call1
|CSeq: 7 INVITE|Content-Length: 0|
at 0 to 1|INVITE sip:bob@home.example SIP/2.0|Via: SIP/2.0/UDP 127.0.0.1:5060;branch=z9hG4bK0123456789abcdef-4|Max-Forwards: 67
|From: "Alice" <sip:alice@home.example>;tag=0123456789abcdef-3|To: <sip:bob@home.example>|Call-ID: 0123456789abcdef-2|CSeq: 1 INVITE|Contact: <sip:127.0.0.1:5060>
|P-Asserted-Identity: <sip:alice@home.example>|Content-Length: 0|
~ A record of a third version.
# version = 3
at 0 web|PUT /simservs/2 HTTP/1.1|X-3GPP-Asserted-Identity: "sip:bob@home.example"|Content-Type: application/toml|Content-Length: 12|
x76657273696f6e203d20330a
~ There is none.
at 0 web|HTTP/1.1 409 Conflict|Content-Type: text/plain|Content-Length: 14|Connection: close|
x77726f6e672076657273696f6e0a
"#;

#[test]
fn of_the_second_version(rt: HostRuntime) {
    assert_right(&rt, "SECOND", wrong_run(rt.alloc(), SECOND));
}
