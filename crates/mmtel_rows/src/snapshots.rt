//! The state in the step counts: which record decides about a call in progress, whom a row charges, from when to when, and in which order rows come.

use crate::asserting::assert_right;
use crate::cases::wrong_run;

const RECORDS: &[u8] =
    br#"~ Bob diverts to carol where he is busy; alice calls him; then carol uploads a record that diverts each call to a mailbox, and bob is busy.
at 0 web|PUT /simservs/2 HTTP/1.1|X-3GPP-Asserted-Identity: "sip:bob@home.example"|Content-Type: application/toml|Content-Length: 105|
x5b636f6d6d756e69636174696f6e2d646976657273696f6e5d0a5b5b636f6d6d756e69636174696f6e2d646976657273696f6e2e72756c655d5d0a62757379203d20747275650a746172676574203d2022736970\
3a6361726f6c40686f6d652e6578616d706c65220a
at 10 peer 1|INVITE sip:bob@home.example SIP/2.0|Via: SIP/2.0/UDP 127.0.0.1:5071;branch=z9hG4bKa1|Max-Forwards: 70|From: <sip:alice@home.example>;tag=a
|To: <sip:bob@home.example>|Call-ID: c1|CSeq: 1 INVITE|Contact: <sip:alice@127.0.0.1:5071>|P-Asserted-Identity: <sip:alice@home.example>|Content-Length: 0|
at 50 web|PUT /simservs/3 HTTP/1.1|X-3GPP-Asserted-Identity: "sip:carol@home.example"|Content-Type: application/toml|Content-Length: 89|
x5b636f6d6d756e69636174696f6e2d646976657273696f6e5d0a5b5b636f6d6d756e69636174696f6e2d646976657273696f6e2e72756c655d5d0a746172676574203d20227369703a766d406661722e6578616d\
706c65220a
at 100 peer 1|SIP/2.0 486 Busy Here|Via: SIP/2.0/UDP 127.0.0.1:5060;branch=z9hG4bK0123456789abcdef-4|From: <sip:alice@home.example>;tag=0123456789abcdef-3
|To: <sip:bob@home.example>;tag=b|Call-ID: 0123456789abcdef-2|CSeq: 1 INVITE|Content-Length: 0|
~ Her record is read when the call reaches her, and she is reached once bob has answered: two 181, and the mailbox is called (TS 24.604 section 4.5.2.6).
at 0 web|HTTP/1.1 200 OK|Content-Length: 0|Connection: close|
at 10 to 1|SIP/2.0 100 Trying|Via: SIP/2.0/UDP 127.0.0.1:5071;branch=z9hG4bKa1|From: <sip:alice@home.example>;tag=a|To: <sip:bob@home.example>|Call-ID: c1|CSeq: 1 INVITE
|Content-Length: 0|
at 10 to 1|INVITE sip:bob@home.example SIP/2.0|Via: SIP/2.0/UDP 127.0.0.1:5060;branch=z9hG4bK0123456789abcdef-4|Max-Forwards: 69
|From: <sip:alice@home.example>;tag=0123456789abcdef-3|To: <sip:bob@home.example>|Call-ID: 0123456789abcdef-2|CSeq: 1 INVITE|Contact: <sip:127.0.0.1:5060>
|P-Asserted-Identity: <sip:alice@home.example>|Content-Length: 0|
at 50 web|HTTP/1.1 200 OK|Content-Length: 0|Connection: close|
at 100 to 1|ACK sip:bob@home.example SIP/2.0|Via: SIP/2.0/UDP 127.0.0.1:5060;branch=z9hG4bK0123456789abcdef-4|Max-Forwards: 70
|From: <sip:alice@home.example>;tag=0123456789abcdef-3|To: <sip:bob@home.example>;tag=b|Call-ID: 0123456789abcdef-2|CSeq: 1 ACK|Content-Length: 0|
at 100 to 1|SIP/2.0 181 Call Is Being Forwarded|Via: SIP/2.0/UDP 127.0.0.1:5071;branch=z9hG4bKa1|From: <sip:alice@home.example>;tag=a
|To: <sip:bob@home.example>;tag=0123456789abcdef-1|Call-ID: c1|CSeq: 1 INVITE|Contact: <sip:127.0.0.1:5060>|History-Info: <sip:bob@home.example>;index=1
|History-Info: <sip:carol@home.example;cause=486>;index=1.1|Content-Length: 0|
at 100 to 1|SIP/2.0 181 Call Is Being Forwarded|Via: SIP/2.0/UDP 127.0.0.1:5071;branch=z9hG4bKa1|From: <sip:alice@home.example>;tag=a
|To: <sip:bob@home.example>;tag=0123456789abcdef-1|Call-ID: c1|CSeq: 1 INVITE|Contact: <sip:127.0.0.1:5060>|History-Info: <sip:bob@home.example>;index=1
|History-Info: <sip:carol@home.example;cause=486>;index=1.1|History-Info: <sip:vm@far.example;cause=302>;index=1.1.1|Content-Length: 0|
at 100 to 2|INVITE sip:vm@far.example;cause=302 SIP/2.0|Via: SIP/2.0/UDP 127.0.0.1:5060;branch=z9hG4bK0123456789abcdef-7|Max-Forwards: 69
|From: <sip:alice@home.example>;tag=0123456789abcdef-6|To: <sip:vm@far.example>|Call-ID: 0123456789abcdef-5|CSeq: 1 INVITE|Contact: <sip:127.0.0.1:5060>
|P-Asserted-Identity: <sip:alice@home.example>|History-Info: <sip:bob@home.example>;index=1|History-Info: <sip:carol@home.example;cause=486>;index=1.1
|History-Info: <sip:vm@far.example;cause=302>;index=1.1.1|Content-Length: 0|
~ The same, and both at one millisecond, her upload first.
at 0 web|PUT /simservs/2 HTTP/1.1|X-3GPP-Asserted-Identity: "sip:bob@home.example"|Content-Type: application/toml|Content-Length: 105|
x5b636f6d6d756e69636174696f6e2d646976657273696f6e5d0a5b5b636f6d6d756e69636174696f6e2d646976657273696f6e2e72756c655d5d0a62757379203d20747275650a746172676574203d2022736970\
3a6361726f6c40686f6d652e6578616d706c65220a
at 10 peer 1|INVITE sip:bob@home.example SIP/2.0|Via: SIP/2.0/UDP 127.0.0.1:5071;branch=z9hG4bKa1|Max-Forwards: 70|From: <sip:alice@home.example>;tag=a
|To: <sip:bob@home.example>|Call-ID: c1|CSeq: 1 INVITE|Contact: <sip:alice@127.0.0.1:5071>|P-Asserted-Identity: <sip:alice@home.example>|Content-Length: 0|
at 100 web|PUT /simservs/3 HTTP/1.1|X-3GPP-Asserted-Identity: "sip:carol@home.example"|Content-Type: application/toml|Content-Length: 89|
x5b636f6d6d756e69636174696f6e2d646976657273696f6e5d0a5b5b636f6d6d756e69636174696f6e2d646976657273696f6e2e72756c655d5d0a746172676574203d20227369703a766d406661722e6578616d\
706c65220a
at 100 peer 1|SIP/2.0 486 Busy Here|Via: SIP/2.0/UDP 127.0.0.1:5060;branch=z9hG4bK0123456789abcdef-4|From: <sip:alice@home.example>;tag=0123456789abcdef-3
|To: <sip:bob@home.example>;tag=b|Call-ID: 0123456789abcdef-2|CSeq: 1 INVITE|Content-Length: 0|
~ What came first counts first: the mailbox is called.
at 0 web|HTTP/1.1 200 OK|Content-Length: 0|Connection: close|
at 10 to 1|SIP/2.0 100 Trying|Via: SIP/2.0/UDP 127.0.0.1:5071;branch=z9hG4bKa1|From: <sip:alice@home.example>;tag=a|To: <sip:bob@home.example>|Call-ID: c1|CSeq: 1 INVITE
|Content-Length: 0|
at 10 to 1|INVITE sip:bob@home.example SIP/2.0|Via: SIP/2.0/UDP 127.0.0.1:5060;branch=z9hG4bK0123456789abcdef-4|Max-Forwards: 69
|From: <sip:alice@home.example>;tag=0123456789abcdef-3|To: <sip:bob@home.example>|Call-ID: 0123456789abcdef-2|CSeq: 1 INVITE|Contact: <sip:127.0.0.1:5060>
|P-Asserted-Identity: <sip:alice@home.example>|Content-Length: 0|
at 100 web|HTTP/1.1 200 OK|Content-Length: 0|Connection: close|
at 100 to 1|ACK sip:bob@home.example SIP/2.0|Via: SIP/2.0/UDP 127.0.0.1:5060;branch=z9hG4bK0123456789abcdef-4|Max-Forwards: 70
|From: <sip:alice@home.example>;tag=0123456789abcdef-3|To: <sip:bob@home.example>;tag=b|Call-ID: 0123456789abcdef-2|CSeq: 1 ACK|Content-Length: 0|
at 100 to 1|SIP/2.0 181 Call Is Being Forwarded|Via: SIP/2.0/UDP 127.0.0.1:5071;branch=z9hG4bKa1|From: <sip:alice@home.example>;tag=a
|To: <sip:bob@home.example>;tag=0123456789abcdef-1|Call-ID: c1|CSeq: 1 INVITE|Contact: <sip:127.0.0.1:5060>|History-Info: <sip:bob@home.example>;index=1
|History-Info: <sip:carol@home.example;cause=486>;index=1.1|Content-Length: 0|
at 100 to 1|SIP/2.0 181 Call Is Being Forwarded|Via: SIP/2.0/UDP 127.0.0.1:5071;branch=z9hG4bKa1|From: <sip:alice@home.example>;tag=a
|To: <sip:bob@home.example>;tag=0123456789abcdef-1|Call-ID: c1|CSeq: 1 INVITE|Contact: <sip:127.0.0.1:5060>|History-Info: <sip:bob@home.example>;index=1
|History-Info: <sip:carol@home.example;cause=486>;index=1.1|History-Info: <sip:vm@far.example;cause=302>;index=1.1.1|Content-Length: 0|
at 100 to 2|INVITE sip:vm@far.example;cause=302 SIP/2.0|Via: SIP/2.0/UDP 127.0.0.1:5060;branch=z9hG4bK0123456789abcdef-7|Max-Forwards: 69
|From: <sip:alice@home.example>;tag=0123456789abcdef-6|To: <sip:vm@far.example>|Call-ID: 0123456789abcdef-5|CSeq: 1 INVITE|Contact: <sip:127.0.0.1:5060>
|P-Asserted-Identity: <sip:alice@home.example>|History-Info: <sip:bob@home.example>;index=1|History-Info: <sip:carol@home.example;cause=486>;index=1.1
|History-Info: <sip:vm@far.example;cause=302>;index=1.1.1|Content-Length: 0|
~ The same at one millisecond, in another order: bob is busy, carol uploads her record, and her telephone rings.
at 0 web|PUT /simservs/2 HTTP/1.1|X-3GPP-Asserted-Identity: "sip:bob@home.example"|Content-Type: application/toml|Content-Length: 105|
x5b636f6d6d756e69636174696f6e2d646976657273696f6e5d0a5b5b636f6d6d756e69636174696f6e2d646976657273696f6e2e72756c655d5d0a62757379203d20747275650a746172676574203d2022736970\
3a6361726f6c40686f6d652e6578616d706c65220a
at 10 peer 1|INVITE sip:bob@home.example SIP/2.0|Via: SIP/2.0/UDP 127.0.0.1:5071;branch=z9hG4bKa1|Max-Forwards: 70|From: <sip:alice@home.example>;tag=a
|To: <sip:bob@home.example>|Call-ID: c1|CSeq: 1 INVITE|Contact: <sip:alice@127.0.0.1:5071>|P-Asserted-Identity: <sip:alice@home.example>|Content-Length: 0|
at 100 peer 1|SIP/2.0 486 Busy Here|Via: SIP/2.0/UDP 127.0.0.1:5060;branch=z9hG4bK0123456789abcdef-4|From: <sip:alice@home.example>;tag=0123456789abcdef-3
|To: <sip:bob@home.example>;tag=b|Call-ID: 0123456789abcdef-2|CSeq: 1 INVITE|Content-Length: 0|
at 100 web|PUT /simservs/3 HTTP/1.1|X-3GPP-Asserted-Identity: "sip:carol@home.example"|Content-Type: application/toml|Content-Length: 89|
x5b636f6d6d756e69636174696f6e2d646976657273696f6e5d0a5b5b636f6d6d756e69636174696f6e2d646976657273696f6e2e72756c655d5d0a746172676574203d20227369703a766d406661722e6578616d\
706c65220a
at 100 peer 1|SIP/2.0 180 Ringing|Via: SIP/2.0/UDP 127.0.0.1:5060;branch=z9hG4bK0123456789abcdef-7|From: <sip:alice@home.example>;tag=0123456789abcdef-6
|To: <sip:carol@home.example>;tag=c|Call-ID: 0123456789abcdef-5|CSeq: 1 INVITE|Content-Length: 0|
~ She was reached before she uploaded it, so her telephone is called, and rings on.
at 0 web|HTTP/1.1 200 OK|Content-Length: 0|Connection: close|
at 10 to 1|SIP/2.0 100 Trying|Via: SIP/2.0/UDP 127.0.0.1:5071;branch=z9hG4bKa1|From: <sip:alice@home.example>;tag=a|To: <sip:bob@home.example>|Call-ID: c1|CSeq: 1 INVITE
|Content-Length: 0|
at 10 to 1|INVITE sip:bob@home.example SIP/2.0|Via: SIP/2.0/UDP 127.0.0.1:5060;branch=z9hG4bK0123456789abcdef-4|Max-Forwards: 69
|From: <sip:alice@home.example>;tag=0123456789abcdef-3|To: <sip:bob@home.example>|Call-ID: 0123456789abcdef-2|CSeq: 1 INVITE|Contact: <sip:127.0.0.1:5060>
|P-Asserted-Identity: <sip:alice@home.example>|Content-Length: 0|
at 100 to 1|ACK sip:bob@home.example SIP/2.0|Via: SIP/2.0/UDP 127.0.0.1:5060;branch=z9hG4bK0123456789abcdef-4|Max-Forwards: 70
|From: <sip:alice@home.example>;tag=0123456789abcdef-3|To: <sip:bob@home.example>;tag=b|Call-ID: 0123456789abcdef-2|CSeq: 1 ACK|Content-Length: 0|
at 100 to 1|SIP/2.0 181 Call Is Being Forwarded|Via: SIP/2.0/UDP 127.0.0.1:5071;branch=z9hG4bKa1|From: <sip:alice@home.example>;tag=a
|To: <sip:bob@home.example>;tag=0123456789abcdef-1|Call-ID: c1|CSeq: 1 INVITE|Contact: <sip:127.0.0.1:5060>|History-Info: <sip:bob@home.example>;index=1
|History-Info: <sip:carol@home.example;cause=486>;index=1.1|Content-Length: 0|
at 100 to 1|INVITE sip:carol@home.example;cause=486 SIP/2.0|Via: SIP/2.0/UDP 127.0.0.1:5060;branch=z9hG4bK0123456789abcdef-7|Max-Forwards: 69
|From: <sip:alice@home.example>;tag=0123456789abcdef-6|To: <sip:carol@home.example>|Call-ID: 0123456789abcdef-5|CSeq: 1 INVITE|Contact: <sip:127.0.0.1:5060>
|P-Asserted-Identity: <sip:alice@home.example>|History-Info: <sip:bob@home.example>;index=1|History-Info: <sip:carol@home.example;cause=486>;index=1.1|Content-Length: 0|
at 100 web|HTTP/1.1 200 OK|Content-Length: 0|Connection: close|
at 100 to 1|SIP/2.0 180 Ringing|Via: SIP/2.0/UDP 127.0.0.1:5071;branch=z9hG4bKa1|From: <sip:alice@home.example>;tag=a|To: <sip:bob@home.example>;tag=0123456789abcdef-1
|Call-ID: c1|CSeq: 1 INVITE|Contact: <sip:127.0.0.1:5060>|Content-Length: 0|
"#;

/// A record is read when the call reaches its account, and by no event before or after that.
#[test]
fn records_as_they_stood(rt: HostRuntime) {
    assert_right(&rt, "RECORDS", wrong_run(rt.alloc(), RECORDS));
}

const ROWS: &[u8] =
    br#"~ Alice opens a conference room and leaves it; then the operator reads the charges.
at 10 peer 1|INVITE sip:conf@home.example SIP/2.0|Via: SIP/2.0/UDP 127.0.0.1:5071;branch=z9hG4bKa1|Max-Forwards: 70|From: <sip:alice@home.example>;tag=a
|To: <sip:conf@home.example>|Call-ID: c1|CSeq: 1 INVITE|Contact: <sip:alice@127.0.0.1:5071>|P-Asserted-Identity: <sip:alice@home.example>|Content-Type: application/sdp
|Content-Length: 87||v=0|o=a 1 1 IN IP4 127.0.0.1|s=-|c=IN IP4 127.0.0.1|t=0 0|m=audio 4000 RTP/AVP 0
at 100 peer 1|BYE sip:room-1@127.0.0.1:5060 SIP/2.0|Via: SIP/2.0/UDP 127.0.0.1:5071;branch=z9hG4bKa2|Max-Forwards: 70|From: <sip:alice@home.example>;tag=a
|To: <sip:conf@home.example>;tag=0123456789abcdef-1|Call-ID: c1|CSeq: 2 BYE|Content-Length: 0|
at 200 web|GET /charges HTTP/1.1|X-3GPP-Asserted-Identity: "sip:op@home.example"|
~ Her seat began, and was answered, when she took it, and ended when she left (TS 32.260 section 5): `participant,1,1,10,10,100,0,ended,0`.
at 10 to 1|SIP/2.0 200 OK|Via: SIP/2.0/UDP 127.0.0.1:5071;branch=z9hG4bKa1|From: <sip:alice@home.example>;tag=a|To: <sip:conf@home.example>;tag=0123456789abcdef-1
|Call-ID: c1|CSeq: 1 INVITE|Contact: <sip:room-1@127.0.0.1:5060>;isfocus|Content-Type: application/sdp|Content-Length: 104||v=0|o=mixer 1 1 IN IP4 127.0.0.1|s=-
|c=IN IP4 127.0.0.1|t=0 0|m=audio 40000 RTP/AVP 0|a=sendrecv
at 100 to 1|SIP/2.0 200 OK|Via: SIP/2.0/UDP 127.0.0.1:5071;branch=z9hG4bKa2|From: <sip:alice@home.example>;tag=a|To: <sip:conf@home.example>;tag=0123456789abcdef-1
|Call-ID: c1|CSeq: 2 BYE|Content-Length: 0|
at 200 web|HTTP/1.1 200 OK|Content-Type: text/csv|Content-Length: 94|Connection: close|
x6b696e642c6163636f756e742c63616c6c2c626567616e2c616e7377657265642c656e6465642c686f6c64732c63617573652c7374617475730a7061727469636970616e742c312c312c31302c31302c3130302c\
302c656e6465642c300a
~ Carol opens a conference room; alice calls bob, who answers. Neither is acknowledged, so both end between two events: the seat at 32010, the call at 32100.
=then:charges|server.cfg
at 10 peer 1|INVITE sip:conf@home.example SIP/2.0|Via: SIP/2.0/UDP 127.0.0.1:5071;branch=z9hG4bKq1|Max-Forwards: 70|From: <sip:carol@home.example>;tag=q
|To: <sip:conf@home.example>|Call-ID: q1|CSeq: 1 INVITE|Contact: <sip:carol@127.0.0.1:5071>|P-Asserted-Identity: <sip:carol@home.example>|Content-Type: application/sdp
|Content-Length: 87||v=0|o=a 1 1 IN IP4 127.0.0.1|s=-|c=IN IP4 127.0.0.1|t=0 0|m=audio 4000 RTP/AVP 0
at 20 peer 1|INVITE sip:bob@home.example SIP/2.0|Via: SIP/2.0/UDP 127.0.0.1:5071;branch=z9hG4bKa1|Max-Forwards: 70|From: <sip:alice@home.example>;tag=a
|To: <sip:bob@home.example>|Call-ID: c1|CSeq: 1 INVITE|Contact: <sip:alice@127.0.0.1:5071>|P-Asserted-Identity: <sip:alice@home.example>|Content-Length: 0|
at 100 peer 1|SIP/2.0 200 OK|Via: SIP/2.0/UDP 127.0.0.1:5060;branch=z9hG4bK0123456789abcdef-5|From: <sip:alice@home.example>;tag=0123456789abcdef-4
|To: <sip:bob@home.example>;tag=b|Call-ID: 0123456789abcdef-3|CSeq: 1 INVITE|Contact: <sip:bob@127.0.0.1:5071>|Content-Length: 0|
at 40000 quiet
~ 32 seconds after a final of success that nobody acknowledged a BYE goes out (RFC 3261 section 13.3.1.4). The rows stand in the order in which they were closed: the seat's first.
kind,account,call,began,answered,ended,holds,cause,status
participant,3,1,10,10,32010,0,ended,0
origin,1,1,20,100,32100,0,ended,0
terminating,2,1,20,100,32100,0,ended,0
~ Alice calls bob, who answers; she never acknowledges.
=then:charges|server.cfg
at 10 peer 1|INVITE sip:bob@home.example SIP/2.0|Via: SIP/2.0/UDP 127.0.0.1:5071;branch=z9hG4bKa1|Max-Forwards: 70|From: <sip:alice@home.example>;tag=a
|To: <sip:bob@home.example>|Call-ID: c1|CSeq: 1 INVITE|Contact: <sip:alice@127.0.0.1:5071>|P-Asserted-Identity: <sip:alice@home.example>|Content-Length: 0|
at 100 peer 1|SIP/2.0 200 OK|Via: SIP/2.0/UDP 127.0.0.1:5060;branch=z9hG4bK0123456789abcdef-4|From: <sip:alice@home.example>;tag=0123456789abcdef-3
|To: <sip:bob@home.example>;tag=b|Call-ID: 0123456789abcdef-2|CSeq: 1 INVITE|Contact: <sip:bob@127.0.0.1:5071>|Content-Length: 0|
at 40000 quiet
~ The call was answered, so both rows end with `ended`, not with a cause of its own.
kind,account,call,began,answered,ended,holds,cause,status
origin,1,1,10,100,32100,0,ended,0
terminating,2,1,10,100,32100,0,ended,0
"#;

/// Who is a participant is charged, and rows come in the order of the steps that closed them.
#[test]
fn rows_as_they_closed(rt: HostRuntime) {
    assert_right(&rt, "ROWS", wrong_run(rt.alloc(), ROWS));
}
