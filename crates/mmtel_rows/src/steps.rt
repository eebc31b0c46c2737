//! The result of a call for each message and deadline, by its phase (RFC 3261 §9, §12 to §15).
//!
//! Each is a script and its expected listing, in the form of `cases`. Records are comments before the bytes in which they are uploaded.

use crate::asserting::assert_right;
use crate::cases::wrong_run;

/// Until the call is answered.
const RINGING: &[u8] = br#"~ Bob sends 183.
at 0 peer 1|INVITE sip:bob@home.example SIP/2.0|Via: SIP/2.0/UDP 127.0.0.1:5071;branch=z9hG4bKc1|Max-Forwards: 68|From: "Alice" <sip:alice@home.example>;tag=t1
|To: <sip:bob@home.example>|Call-ID: call1|CSeq: 7 INVITE|Contact: <sip:alice@127.0.0.1:5071>|P-Asserted-Identity: <sip:alice@home.example>|Content-Length: 0|
at 50 peer 1|SIP/2.0 183 On The Way|Via: SIP/2.0/UDP 127.0.0.1:5060;branch=z9hG4bK0123456789abcdef-4|From: "Alice" <sip:alice@home.example>;tag=0123456789abcdef-3
|To: <sip:bob@home.example>;tag=b1|Call-ID: 0123456789abcdef-2|CSeq: 1 INVITE|Contact: <sip:bob1@127.0.0.1:5071>|Content-Type: application/sdp|Server: S|Require: 100rel
|X-Odd: 1|Content-Length: 123||v=0|o=- 1 1 IN IP4 127.0.0.1|s=-|c=IN IP4 127.0.0.1|t=0 0|m=audio 5004 RTP/AVP 8 0|a=rtpmap:8 PCMA/8000|a=sendrecv
~ It goes on to alice with its phrase.
at 0 to 1|SIP/2.0 100 Trying|Via: SIP/2.0/UDP 127.0.0.1:5071;branch=z9hG4bKc1|From: "Alice" <sip:alice@home.example>;tag=t1|To: <sip:bob@home.example>|Call-ID: call1
|CSeq: 7 INVITE|Content-Length: 0|
at 0 to 1|INVITE sip:bob@home.example SIP/2.0|Via: SIP/2.0/UDP 127.0.0.1:5060;branch=z9hG4bK0123456789abcdef-4|Max-Forwards: 67
|From: "Alice" <sip:alice@home.example>;tag=0123456789abcdef-3|To: <sip:bob@home.example>|Call-ID: 0123456789abcdef-2|CSeq: 1 INVITE|Contact: <sip:127.0.0.1:5060>
|P-Asserted-Identity: <sip:alice@home.example>|Content-Length: 0|
at 50 to 1|SIP/2.0 183 On The Way|Via: SIP/2.0/UDP 127.0.0.1:5071;branch=z9hG4bKc1|From: "Alice" <sip:alice@home.example>;tag=t1
|To: <sip:bob@home.example>;tag=0123456789abcdef-1|Call-ID: call1|CSeq: 7 INVITE|Contact: <sip:127.0.0.1:5060>|Content-Type: application/sdp|Server: S|Content-Length: 123
||v=0|o=- 1 1 IN IP4 127.0.0.1|s=-|c=IN IP4 127.0.0.1|t=0 0|m=audio 5004 RTP/AVP 8 0|a=rtpmap:8 PCMA/8000|a=sendrecv
~ He sends 480 with a phrase of his own.
at 0 peer 1|INVITE sip:bob@home.example SIP/2.0|Via: SIP/2.0/UDP 127.0.0.1:5071;branch=z9hG4bKc1|Max-Forwards: 68|From: "Alice" <sip:alice@home.example>;tag=t1
|To: <sip:bob@home.example>|Call-ID: call1|CSeq: 7 INVITE|Contact: <sip:alice@127.0.0.1:5071>|P-Asserted-Identity: <sip:alice@home.example>|Content-Length: 0|
at 50 peer 1|SIP/2.0 480 Gone Fishing|Via: SIP/2.0/UDP 127.0.0.1:5060;branch=z9hG4bK0123456789abcdef-4|From: "Alice" <sip:alice@home.example>;tag=0123456789abcdef-3
|To: <sip:bob@home.example>;tag=b1|Call-ID: 0123456789abcdef-2|CSeq: 1 INVITE|Retry-After: 60|Contact: <sip:x@y>|Content-Length: 0|
~ It is acknowledged and goes on with it.
at 0 to 1|SIP/2.0 100 Trying|Via: SIP/2.0/UDP 127.0.0.1:5071;branch=z9hG4bKc1|From: "Alice" <sip:alice@home.example>;tag=t1|To: <sip:bob@home.example>|Call-ID: call1
|CSeq: 7 INVITE|Content-Length: 0|
at 0 to 1|INVITE sip:bob@home.example SIP/2.0|Via: SIP/2.0/UDP 127.0.0.1:5060;branch=z9hG4bK0123456789abcdef-4|Max-Forwards: 67
|From: "Alice" <sip:alice@home.example>;tag=0123456789abcdef-3|To: <sip:bob@home.example>|Call-ID: 0123456789abcdef-2|CSeq: 1 INVITE|Contact: <sip:127.0.0.1:5060>
|P-Asserted-Identity: <sip:alice@home.example>|Content-Length: 0|
at 50 to 1|ACK sip:bob@home.example SIP/2.0|Via: SIP/2.0/UDP 127.0.0.1:5060;branch=z9hG4bK0123456789abcdef-4|Max-Forwards: 70
|From: "Alice" <sip:alice@home.example>;tag=0123456789abcdef-3|To: <sip:bob@home.example>;tag=b1|Call-ID: 0123456789abcdef-2|CSeq: 1 ACK|Content-Length: 0|
at 50 to 1|SIP/2.0 480 Gone Fishing|Via: SIP/2.0/UDP 127.0.0.1:5071;branch=z9hG4bKc1|From: "Alice" <sip:alice@home.example>;tag=t1
|To: <sip:bob@home.example>;tag=0123456789abcdef-1|Call-ID: call1|CSeq: 7 INVITE|Retry-After: 60|Content-Length: 0|
~ He sends 503 before he rings, and diverts when he is not reachable.
# [communication-diversion]
# [[communication-diversion.rule]]
# not-reachable = true
# target = "sip:vm@far.example"
at 0 web|PUT /simservs/2 HTTP/1.1|X-3GPP-Asserted-Identity: "sip:bob@home.example"|Content-Type: application/toml|Content-Length: 110|
x5b636f6d6d756e69636174696f6e2d646976657273696f6e5d0a5b5b636f6d6d756e69636174696f6e2d646976657273696f6e2e72756c655d5d0a6e6f742d726561636861626c65203d20747275650\
a746172676574203d20227369703a766d406661722e6578616d706c65220a
at 0 peer 1|INVITE sip:bob@home.example SIP/2.0|Via: SIP/2.0/UDP 127.0.0.1:5071;branch=z9hG4bKc1|Max-Forwards: 68|From: "Alice" <sip:alice@home.example>;tag=t1
|To: <sip:bob@home.example>|Call-ID: call1|CSeq: 7 INVITE|Contact: <sip:alice@127.0.0.1:5071>|P-Asserted-Identity: <sip:alice@home.example>|Content-Length: 0|
at 50 peer 1|SIP/2.0 503 No|Via: SIP/2.0/UDP 127.0.0.1:5060;branch=z9hG4bK0123456789abcdef-4|From: "Alice" <sip:alice@home.example>;tag=0123456789abcdef-3
|To: <sip:bob@home.example>;tag=b1|Call-ID: 0123456789abcdef-2|CSeq: 1 INVITE|Content-Length: 0|
~ The call is diverted.
at 0 web|HTTP/1.1 200 OK|Content-Length: 0|Connection: close|
at 0 to 1|SIP/2.0 100 Trying|Via: SIP/2.0/UDP 127.0.0.1:5071;branch=z9hG4bKc1|From: "Alice" <sip:alice@home.example>;tag=t1|To: <sip:bob@home.example>|Call-ID: call1
|CSeq: 7 INVITE|Content-Length: 0|
at 0 to 1|INVITE sip:bob@home.example SIP/2.0|Via: SIP/2.0/UDP 127.0.0.1:5060;branch=z9hG4bK0123456789abcdef-4|Max-Forwards: 67
|From: "Alice" <sip:alice@home.example>;tag=0123456789abcdef-3|To: <sip:bob@home.example>|Call-ID: 0123456789abcdef-2|CSeq: 1 INVITE|Contact: <sip:127.0.0.1:5060>
|P-Asserted-Identity: <sip:alice@home.example>|Content-Length: 0|
at 50 to 1|ACK sip:bob@home.example SIP/2.0|Via: SIP/2.0/UDP 127.0.0.1:5060;branch=z9hG4bK0123456789abcdef-4|Max-Forwards: 70
|From: "Alice" <sip:alice@home.example>;tag=0123456789abcdef-3|To: <sip:bob@home.example>;tag=b1|Call-ID: 0123456789abcdef-2|CSeq: 1 ACK|Content-Length: 0|
at 50 to 1|SIP/2.0 181 Call Is Being Forwarded|Via: SIP/2.0/UDP 127.0.0.1:5071;branch=z9hG4bKc1|From: "Alice" <sip:alice@home.example>;tag=t1
|To: <sip:bob@home.example>;tag=0123456789abcdef-1|Call-ID: call1|CSeq: 7 INVITE|Contact: <sip:127.0.0.1:5060>|History-Info: <sip:bob@home.example>;index=1
|History-Info: <sip:vm@far.example;cause=503>;index=1.1|Content-Length: 0|
at 50 to 2|INVITE sip:vm@far.example;cause=503 SIP/2.0|Via: SIP/2.0/UDP 127.0.0.1:5060;branch=z9hG4bK0123456789abcdef-7|Max-Forwards: 67
|From: "Alice" <sip:alice@home.example>;tag=0123456789abcdef-6|To: <sip:vm@far.example>|Call-ID: 0123456789abcdef-5|CSeq: 1 INVITE|Contact: <sip:127.0.0.1:5060>
|P-Asserted-Identity: <sip:alice@home.example>|History-Info: <sip:bob@home.example>;index=1|History-Info: <sip:vm@far.example;cause=503>;index=1.1|Content-Length: 0|
~ He sends it when he rang.
# [communication-diversion]
# [[communication-diversion.rule]]
# not-reachable = true
# target = "sip:vm@far.example"
at 0 web|PUT /simservs/2 HTTP/1.1|X-3GPP-Asserted-Identity: "sip:bob@home.example"|Content-Type: application/toml|Content-Length: 110|
x5b636f6d6d756e69636174696f6e2d646976657273696f6e5d0a5b5b636f6d6d756e69636174696f6e2d646976657273696f6e2e72756c655d5d0a6e6f742d726561636861626c65203d20747275650\
a746172676574203d20227369703a766d406661722e6578616d706c65220a
at 0 peer 1|INVITE sip:bob@home.example SIP/2.0|Via: SIP/2.0/UDP 127.0.0.1:5071;branch=z9hG4bKc1|Max-Forwards: 68|From: "Alice" <sip:alice@home.example>;tag=t1
|To: <sip:bob@home.example>|Call-ID: call1|CSeq: 7 INVITE|Contact: <sip:alice@127.0.0.1:5071>|P-Asserted-Identity: <sip:alice@home.example>|Content-Length: 0|
at 100 peer 1|SIP/2.0 180 Ringing|Via: SIP/2.0/UDP 127.0.0.1:5060;branch=z9hG4bK0123456789abcdef-4|From: "Alice" <sip:alice@home.example>;tag=0123456789abcdef-3
|To: <sip:bob@home.example>;tag=b1|Call-ID: 0123456789abcdef-2|CSeq: 1 INVITE|Content-Length: 0|
at 150 peer 1|SIP/2.0 503 No|Via: SIP/2.0/UDP 127.0.0.1:5060;branch=z9hG4bK0123456789abcdef-4|From: "Alice" <sip:alice@home.example>;tag=0123456789abcdef-3
|To: <sip:bob@home.example>;tag=b1|Call-ID: 0123456789abcdef-2|CSeq: 1 INVITE|Content-Length: 0|
~ It is no silence then, and goes on.
at 0 web|HTTP/1.1 200 OK|Content-Length: 0|Connection: close|
at 0 to 1|SIP/2.0 100 Trying|Via: SIP/2.0/UDP 127.0.0.1:5071;branch=z9hG4bKc1|From: "Alice" <sip:alice@home.example>;tag=t1|To: <sip:bob@home.example>|Call-ID: call1
|CSeq: 7 INVITE|Content-Length: 0|
at 0 to 1|INVITE sip:bob@home.example SIP/2.0|Via: SIP/2.0/UDP 127.0.0.1:5060;branch=z9hG4bK0123456789abcdef-4|Max-Forwards: 67
|From: "Alice" <sip:alice@home.example>;tag=0123456789abcdef-3|To: <sip:bob@home.example>|Call-ID: 0123456789abcdef-2|CSeq: 1 INVITE|Contact: <sip:127.0.0.1:5060>
|P-Asserted-Identity: <sip:alice@home.example>|Content-Length: 0|
at 100 to 1|SIP/2.0 180 Ringing|Via: SIP/2.0/UDP 127.0.0.1:5071;branch=z9hG4bKc1|From: "Alice" <sip:alice@home.example>;tag=t1
|To: <sip:bob@home.example>;tag=0123456789abcdef-1|Call-ID: call1|CSeq: 7 INVITE|Contact: <sip:127.0.0.1:5060>|Content-Length: 0|
at 150 to 1|ACK sip:bob@home.example SIP/2.0|Via: SIP/2.0/UDP 127.0.0.1:5060;branch=z9hG4bK0123456789abcdef-4|Max-Forwards: 70
|From: "Alice" <sip:alice@home.example>;tag=0123456789abcdef-3|To: <sip:bob@home.example>;tag=b1|Call-ID: 0123456789abcdef-2|CSeq: 1 ACK|Content-Length: 0|
at 150 to 1|SIP/2.0 503 No|Via: SIP/2.0/UDP 127.0.0.1:5071;branch=z9hG4bKc1|From: "Alice" <sip:alice@home.example>;tag=t1
|To: <sip:bob@home.example>;tag=0123456789abcdef-1|Call-ID: call1|CSeq: 7 INVITE|Content-Length: 0|
~ Bob sends 100 and no more for 180,000.
at 0 peer 1|INVITE sip:bob@home.example SIP/2.0|Via: SIP/2.0/UDP 127.0.0.1:5071;branch=z9hG4bKc1|Max-Forwards: 68|From: "Alice" <sip:alice@home.example>;tag=t1
|To: <sip:bob@home.example>|Call-ID: call1|CSeq: 7 INVITE|Contact: <sip:alice@127.0.0.1:5071>|P-Asserted-Identity: <sip:alice@home.example>|Content-Length: 0|
at 50 peer 1|SIP/2.0 100 Trying|Via: SIP/2.0/UDP 127.0.0.1:5060;branch=z9hG4bK0123456789abcdef-4|From: "Alice" <sip:alice@home.example>;tag=0123456789abcdef-3
|To: <sip:bob@home.example>|Call-ID: 0123456789abcdef-2|CSeq: 1 INVITE|Content-Length: 0|
at 180000 quiet
~ He is cancelled, and alice gets 408.
at 0 to 1|SIP/2.0 100 Trying|Via: SIP/2.0/UDP 127.0.0.1:5071;branch=z9hG4bKc1|From: "Alice" <sip:alice@home.example>;tag=t1|To: <sip:bob@home.example>|Call-ID: call1
|CSeq: 7 INVITE|Content-Length: 0|
at 0 to 1|INVITE sip:bob@home.example SIP/2.0|Via: SIP/2.0/UDP 127.0.0.1:5060;branch=z9hG4bK0123456789abcdef-4|Max-Forwards: 67
|From: "Alice" <sip:alice@home.example>;tag=0123456789abcdef-3|To: <sip:bob@home.example>|Call-ID: 0123456789abcdef-2|CSeq: 1 INVITE|Contact: <sip:127.0.0.1:5060>
|P-Asserted-Identity: <sip:alice@home.example>|Content-Length: 0|
at 180000 to 1|CANCEL sip:bob@home.example SIP/2.0|Via: SIP/2.0/UDP 127.0.0.1:5060;branch=z9hG4bK0123456789abcdef-4|Max-Forwards: 70
|From: "Alice" <sip:alice@home.example>;tag=0123456789abcdef-3|To: <sip:bob@home.example>|Call-ID: 0123456789abcdef-2|CSeq: 1 CANCEL|Content-Length: 0|
at 180000 to 1|SIP/2.0 408 Request Timeout|Via: SIP/2.0/UDP 127.0.0.1:5071;branch=z9hG4bKc1|From: "Alice" <sip:alice@home.example>;tag=t1
|To: <sip:bob@home.example>;tag=0123456789abcdef-1|Call-ID: call1|CSeq: 7 INVITE|Content-Length: 0|
~ He rings for 180,000.
at 0 peer 1|INVITE sip:bob@home.example SIP/2.0|Via: SIP/2.0/UDP 127.0.0.1:5071;branch=z9hG4bKc1|Max-Forwards: 68|From: "Alice" <sip:alice@home.example>;tag=t1
|To: <sip:bob@home.example>|Call-ID: call1|CSeq: 7 INVITE|Contact: <sip:alice@127.0.0.1:5071>|P-Asserted-Identity: <sip:alice@home.example>|Content-Length: 0|
at 100 peer 1|SIP/2.0 180 Ringing|Via: SIP/2.0/UDP 127.0.0.1:5060;branch=z9hG4bK0123456789abcdef-4|From: "Alice" <sip:alice@home.example>;tag=0123456789abcdef-3
|To: <sip:bob@home.example>;tag=b1|Call-ID: 0123456789abcdef-2|CSeq: 1 INVITE|Content-Length: 0|
at 180000 quiet
~ He is cancelled, and she gets 480.
at 0 to 1|SIP/2.0 100 Trying|Via: SIP/2.0/UDP 127.0.0.1:5071;branch=z9hG4bKc1|From: "Alice" <sip:alice@home.example>;tag=t1|To: <sip:bob@home.example>|Call-ID: call1
|CSeq: 7 INVITE|Content-Length: 0|
at 0 to 1|INVITE sip:bob@home.example SIP/2.0|Via: SIP/2.0/UDP 127.0.0.1:5060;branch=z9hG4bK0123456789abcdef-4|Max-Forwards: 67
|From: "Alice" <sip:alice@home.example>;tag=0123456789abcdef-3|To: <sip:bob@home.example>|Call-ID: 0123456789abcdef-2|CSeq: 1 INVITE|Contact: <sip:127.0.0.1:5060>
|P-Asserted-Identity: <sip:alice@home.example>|Content-Length: 0|
at 100 to 1|SIP/2.0 180 Ringing|Via: SIP/2.0/UDP 127.0.0.1:5071;branch=z9hG4bKc1|From: "Alice" <sip:alice@home.example>;tag=t1
|To: <sip:bob@home.example>;tag=0123456789abcdef-1|Call-ID: call1|CSeq: 7 INVITE|Contact: <sip:127.0.0.1:5060>|Content-Length: 0|
at 180000 to 1|CANCEL sip:bob@home.example SIP/2.0|Via: SIP/2.0/UDP 127.0.0.1:5060;branch=z9hG4bK0123456789abcdef-4|Max-Forwards: 70
|From: "Alice" <sip:alice@home.example>;tag=0123456789abcdef-3|To: <sip:bob@home.example>|Call-ID: 0123456789abcdef-2|CSeq: 1 CANCEL|Content-Length: 0|
at 180000 to 1|SIP/2.0 480 Temporarily Unavailable|Via: SIP/2.0/UDP 127.0.0.1:5071;branch=z9hG4bKc1|From: "Alice" <sip:alice@home.example>;tag=t1
|To: <sip:bob@home.example>;tag=0123456789abcdef-1|Call-ID: call1|CSeq: 7 INVITE|Content-Length: 0|
~ Alice cancels while he rings (RFC 3261 section 9.2).
at 0 peer 1|INVITE sip:bob@home.example SIP/2.0|Via: SIP/2.0/UDP 127.0.0.1:5071;branch=z9hG4bKc1|Max-Forwards: 68|From: "Alice" <sip:alice@home.example>;tag=t1
|To: <sip:bob@home.example>|Call-ID: call1|CSeq: 7 INVITE|Contact: <sip:alice@127.0.0.1:5071>|P-Asserted-Identity: <sip:alice@home.example>|Content-Length: 0|
at 100 peer 1|SIP/2.0 180 Ringing|Via: SIP/2.0/UDP 127.0.0.1:5060;branch=z9hG4bK0123456789abcdef-4|From: "Alice" <sip:alice@home.example>;tag=0123456789abcdef-3
|To: <sip:bob@home.example>;tag=b1|Call-ID: 0123456789abcdef-2|CSeq: 1 INVITE|Content-Length: 0|
at 150 peer 1|CANCEL sip:bob@home.example SIP/2.0|Via: SIP/2.0/UDP 127.0.0.1:5071;branch=z9hG4bKc1|Max-Forwards: 68|From: "Alice" <sip:alice@home.example>;tag=t1
|To: <sip:bob@home.example>|Call-ID: call1|CSeq: 7 CANCEL|Content-Length: 0|
at 160 peer 1|SIP/2.0 487 Request Terminated|Via: SIP/2.0/UDP 127.0.0.1:5060;branch=z9hG4bK0123456789abcdef-4
|From: "Alice" <sip:alice@home.example>;tag=0123456789abcdef-3|To: <sip:bob@home.example>;tag=b1|Call-ID: 0123456789abcdef-2|CSeq: 1 INVITE|Content-Length: 0|
~ 200, 487, and CANCEL to bob, whose 487 is acknowledged.
at 0 to 1|SIP/2.0 100 Trying|Via: SIP/2.0/UDP 127.0.0.1:5071;branch=z9hG4bKc1|From: "Alice" <sip:alice@home.example>;tag=t1|To: <sip:bob@home.example>|Call-ID: call1
|CSeq: 7 INVITE|Content-Length: 0|
at 0 to 1|INVITE sip:bob@home.example SIP/2.0|Via: SIP/2.0/UDP 127.0.0.1:5060;branch=z9hG4bK0123456789abcdef-4|Max-Forwards: 67
|From: "Alice" <sip:alice@home.example>;tag=0123456789abcdef-3|To: <sip:bob@home.example>|Call-ID: 0123456789abcdef-2|CSeq: 1 INVITE|Contact: <sip:127.0.0.1:5060>
|P-Asserted-Identity: <sip:alice@home.example>|Content-Length: 0|
at 100 to 1|SIP/2.0 180 Ringing|Via: SIP/2.0/UDP 127.0.0.1:5071;branch=z9hG4bKc1|From: "Alice" <sip:alice@home.example>;tag=t1
|To: <sip:bob@home.example>;tag=0123456789abcdef-1|Call-ID: call1|CSeq: 7 INVITE|Contact: <sip:127.0.0.1:5060>|Content-Length: 0|
at 150 to 1|SIP/2.0 200 OK|Via: SIP/2.0/UDP 127.0.0.1:5071;branch=z9hG4bKc1|From: "Alice" <sip:alice@home.example>;tag=t1
|To: <sip:bob@home.example>;tag=0123456789abcdef-1|Call-ID: call1|CSeq: 7 CANCEL|Content-Length: 0|
at 150 to 1|SIP/2.0 487 Request Terminated|Via: SIP/2.0/UDP 127.0.0.1:5071;branch=z9hG4bKc1|From: "Alice" <sip:alice@home.example>;tag=t1
|To: <sip:bob@home.example>;tag=0123456789abcdef-1|Call-ID: call1|CSeq: 7 INVITE|Content-Length: 0|
at 150 to 1|CANCEL sip:bob@home.example SIP/2.0|Via: SIP/2.0/UDP 127.0.0.1:5060;branch=z9hG4bK0123456789abcdef-4|Max-Forwards: 70
|From: "Alice" <sip:alice@home.example>;tag=0123456789abcdef-3|To: <sip:bob@home.example>|Call-ID: 0123456789abcdef-2|CSeq: 1 CANCEL|Content-Length: 0|
at 160 to 1|ACK sip:bob@home.example SIP/2.0|Via: SIP/2.0/UDP 127.0.0.1:5060;branch=z9hG4bK0123456789abcdef-4|Max-Forwards: 70
|From: "Alice" <sip:alice@home.example>;tag=0123456789abcdef-3|To: <sip:bob@home.example>;tag=b1|Call-ID: 0123456789abcdef-2|CSeq: 1 ACK|Content-Length: 0|
~ Erin cancels before anything came of bob; two 200 of one dialog come, two of another, and a 180.
at 0 peer 1|INVITE sip:bob@far.example SIP/2.0|Via: SIP/2.0/UDP 127.0.0.1:5071;branch=z9hG4bKa1|Max-Forwards: 68|From: "Erin" <sip:erin@other.example>;tag=a
|To: <sip:bob@far.example>|Call-ID: c1|CSeq: 7 INVITE|Contact: <sip:erin@127.0.0.1:5071>|P-Asserted-Identity: <sip:erin@other.example>|Privacy: id|Content-Length: 0|
at 100 peer 1|CANCEL sip:bob@far.example SIP/2.0|Via: SIP/2.0/UDP 127.0.0.1:5071;branch=z9hG4bKa1|Max-Forwards: 68|From: "Erin" <sip:erin@other.example>;tag=a
|To: <sip:bob@far.example>|Call-ID: c1|CSeq: 7 CANCEL|Content-Length: 0|
at 110 peer 1|ACK sip:bob@far.example SIP/2.0|Via: SIP/2.0/UDP 127.0.0.1:5071;branch=z9hG4bKa1|Max-Forwards: 68|From: "Erin" <sip:erin@other.example>;tag=a
|To: <sip:bob@far.example>;tag=0123456789abcdef-1|Call-ID: c1|CSeq: 7 ACK|Content-Length: 0|
at 200 peer 2|SIP/2.0 200 OK|Via: SIP/2.0/UDP 127.0.0.1:5060;branch=z9hG4bK0123456789abcdef-4|From: "Anonymous" <sip:anonymous@anonymous.invalid>;tag=0123456789abcdef-3
|To: <sip:bob@far.example>;tag=x|Call-ID: 0123456789abcdef-2|CSeq: 1 INVITE|Contact: <sip:x@127.0.0.1:5072>|Content-Length: 0|
at 250 peer 2|SIP/2.0 200 OK|Via: SIP/2.0/UDP 127.0.0.1:5060;branch=z9hG4bK0123456789abcdef-4|From: "Anonymous" <sip:anonymous@anonymous.invalid>;tag=0123456789abcdef-3
|To: <sip:bob@far.example>;tag=x|Call-ID: 0123456789abcdef-2|CSeq: 1 INVITE|Contact: <sip:x@127.0.0.1:5072>|Content-Length: 0|
at 260 peer 2|SIP/2.0 200 OK|Via: SIP/2.0/UDP 127.0.0.1:5060;branch=z9hG4bK0123456789abcdef-4|From: "Anonymous" <sip:anonymous@anonymous.invalid>;tag=0123456789abcdef-3
|To: <sip:bob@far.example>;tag=y|Call-ID: 0123456789abcdef-2|CSeq: 1 INVITE|Contact: <sip:y@127.0.0.1:5072>|Content-Length: 0|
at 270 peer 2|SIP/2.0 200 OK|Via: SIP/2.0/UDP 127.0.0.1:5060;branch=z9hG4bK0123456789abcdef-4|From: "Anonymous" <sip:anonymous@anonymous.invalid>;tag=0123456789abcdef-3
|To: <sip:bob@far.example>;tag=y|Call-ID: 0123456789abcdef-2|CSeq: 1 INVITE|Contact: <sip:y@127.0.0.1:5072>|Content-Length: 0|
at 280 peer 2|SIP/2.0 180 Ringing|Via: SIP/2.0/UDP 127.0.0.1:5060;branch=z9hG4bK0123456789abcdef-4
|From: "Anonymous" <sip:anonymous@anonymous.invalid>;tag=0123456789abcdef-3|To: <sip:bob@far.example>;tag=z|Call-ID: 0123456789abcdef-2|CSeq: 1 INVITE|Content-Length: 0|
~ Each 200 is acknowledged, each dialog has one BYE, and the CANCEL goes with the 180 (RFC 3261 section 13.2.2.4).
at 0 to 1|SIP/2.0 100 Trying|Via: SIP/2.0/UDP 127.0.0.1:5071;branch=z9hG4bKa1|From: "Erin" <sip:erin@other.example>;tag=a|To: <sip:bob@far.example>|Call-ID: c1
|CSeq: 7 INVITE|Content-Length: 0|
at 0 to 2|INVITE sip:bob@far.example SIP/2.0|Via: SIP/2.0/UDP 127.0.0.1:5060;branch=z9hG4bK0123456789abcdef-4|Max-Forwards: 67
|From: "Anonymous" <sip:anonymous@anonymous.invalid>;tag=0123456789abcdef-3|To: <sip:bob@far.example>|Call-ID: 0123456789abcdef-2|CSeq: 1 INVITE
|Contact: <sip:127.0.0.1:5060>|Content-Length: 0|
at 100 to 1|SIP/2.0 200 OK|Via: SIP/2.0/UDP 127.0.0.1:5071;branch=z9hG4bKa1|From: "Erin" <sip:erin@other.example>;tag=a|To: <sip:bob@far.example>;tag=0123456789abcdef-1
|Call-ID: c1|CSeq: 7 CANCEL|Content-Length: 0|
at 100 to 1|SIP/2.0 487 Request Terminated|Via: SIP/2.0/UDP 127.0.0.1:5071;branch=z9hG4bKa1|From: "Erin" <sip:erin@other.example>;tag=a
|To: <sip:bob@far.example>;tag=0123456789abcdef-1|Call-ID: c1|CSeq: 7 INVITE|Content-Length: 0|
at 200 to 2|ACK sip:x@127.0.0.1:5072 SIP/2.0|Via: SIP/2.0/UDP 127.0.0.1:5060;branch=z9hG4bK0123456789abcdef-5|Max-Forwards: 70
|From: "Anonymous" <sip:anonymous@anonymous.invalid>;tag=0123456789abcdef-3|To: <sip:bob@far.example>;tag=x|Call-ID: 0123456789abcdef-2|CSeq: 1 ACK|Content-Length: 0|
at 200 to 2|BYE sip:x@127.0.0.1:5072 SIP/2.0|Via: SIP/2.0/UDP 127.0.0.1:5060;branch=z9hG4bK0123456789abcdef-6|Max-Forwards: 70
|From: "Anonymous" <sip:anonymous@anonymous.invalid>;tag=0123456789abcdef-3|To: <sip:bob@far.example>;tag=x|Call-ID: 0123456789abcdef-2|CSeq: 2 BYE|Content-Length: 0|
at 250 to 2|ACK sip:x@127.0.0.1:5072 SIP/2.0|Via: SIP/2.0/UDP 127.0.0.1:5060;branch=z9hG4bK0123456789abcdef-7|Max-Forwards: 70
|From: "Anonymous" <sip:anonymous@anonymous.invalid>;tag=0123456789abcdef-3|To: <sip:bob@far.example>;tag=x|Call-ID: 0123456789abcdef-2|CSeq: 1 ACK|Content-Length: 0|
at 260 to 2|ACK sip:y@127.0.0.1:5072 SIP/2.0|Via: SIP/2.0/UDP 127.0.0.1:5060;branch=z9hG4bK0123456789abcdef-8|Max-Forwards: 70
|From: "Anonymous" <sip:anonymous@anonymous.invalid>;tag=0123456789abcdef-3|To: <sip:bob@far.example>;tag=y|Call-ID: 0123456789abcdef-2|CSeq: 1 ACK|Content-Length: 0|
at 260 to 2|BYE sip:y@127.0.0.1:5072 SIP/2.0|Via: SIP/2.0/UDP 127.0.0.1:5060;branch=z9hG4bK0123456789abcdef-9|Max-Forwards: 70
|From: "Anonymous" <sip:anonymous@anonymous.invalid>;tag=0123456789abcdef-3|To: <sip:bob@far.example>;tag=y|Call-ID: 0123456789abcdef-2|CSeq: 2 BYE|Content-Length: 0|
at 270 to 2|ACK sip:y@127.0.0.1:5072 SIP/2.0|Via: SIP/2.0/UDP 127.0.0.1:5060;branch=z9hG4bK0123456789abcdef-10|Max-Forwards: 70
|From: "Anonymous" <sip:anonymous@anonymous.invalid>;tag=0123456789abcdef-3|To: <sip:bob@far.example>;tag=y|Call-ID: 0123456789abcdef-2|CSeq: 1 ACK|Content-Length: 0|
at 280 to 2|CANCEL sip:bob@far.example SIP/2.0|Via: SIP/2.0/UDP 127.0.0.1:5060;branch=z9hG4bK0123456789abcdef-4|Max-Forwards: 70
|From: "Anonymous" <sip:anonymous@anonymous.invalid>;tag=0123456789abcdef-3|To: <sip:bob@far.example>|Call-ID: 0123456789abcdef-2|CSeq: 1 CANCEL|Content-Length: 0|
~ Alice hangs up while he rings.
at 0 peer 1|INVITE sip:bob@home.example SIP/2.0|Via: SIP/2.0/UDP 127.0.0.1:5071;branch=z9hG4bKc1|Max-Forwards: 68|From: "Alice" <sip:alice@home.example>;tag=t1
|To: <sip:bob@home.example>|Call-ID: call1|CSeq: 7 INVITE|Contact: <sip:alice@127.0.0.1:5071>|P-Asserted-Identity: <sip:alice@home.example>|Content-Length: 0|
at 100 peer 1|SIP/2.0 180 Ringing|Via: SIP/2.0/UDP 127.0.0.1:5060;branch=z9hG4bK0123456789abcdef-4|From: "Alice" <sip:alice@home.example>;tag=0123456789abcdef-3
|To: <sip:bob@home.example>;tag=b1|Call-ID: 0123456789abcdef-2|CSeq: 1 INVITE|Content-Length: 0|
at 150 peer 1|BYE sip:127.0.0.1:5060 SIP/2.0|Via: SIP/2.0/UDP 127.0.0.1:5071;branch=z9hG4bKy|Max-Forwards: 68|From: "Alice" <sip:alice@home.example>;tag=t1
|To: <sip:bob@home.example>;tag=0123456789abcdef-1|Call-ID: call1|CSeq: 8 BYE|Content-Length: 0|
~ As if she cancelled.
at 0 to 1|SIP/2.0 100 Trying|Via: SIP/2.0/UDP 127.0.0.1:5071;branch=z9hG4bKc1|From: "Alice" <sip:alice@home.example>;tag=t1|To: <sip:bob@home.example>|Call-ID: call1
|CSeq: 7 INVITE|Content-Length: 0|
at 0 to 1|INVITE sip:bob@home.example SIP/2.0|Via: SIP/2.0/UDP 127.0.0.1:5060;branch=z9hG4bK0123456789abcdef-4|Max-Forwards: 67
|From: "Alice" <sip:alice@home.example>;tag=0123456789abcdef-3|To: <sip:bob@home.example>|Call-ID: 0123456789abcdef-2|CSeq: 1 INVITE|Contact: <sip:127.0.0.1:5060>
|P-Asserted-Identity: <sip:alice@home.example>|Content-Length: 0|
at 100 to 1|SIP/2.0 180 Ringing|Via: SIP/2.0/UDP 127.0.0.1:5071;branch=z9hG4bKc1|From: "Alice" <sip:alice@home.example>;tag=t1
|To: <sip:bob@home.example>;tag=0123456789abcdef-1|Call-ID: call1|CSeq: 7 INVITE|Contact: <sip:127.0.0.1:5060>|Content-Length: 0|
at 150 to 1|SIP/2.0 200 OK|Via: SIP/2.0/UDP 127.0.0.1:5071;branch=z9hG4bKy|From: "Alice" <sip:alice@home.example>;tag=t1|To: <sip:bob@home.example>;tag=0123456789abcdef-1
|Call-ID: call1|CSeq: 8 BYE|Content-Length: 0|
at 150 to 1|SIP/2.0 487 Request Terminated|Via: SIP/2.0/UDP 127.0.0.1:5071;branch=z9hG4bKc1|From: "Alice" <sip:alice@home.example>;tag=t1
|To: <sip:bob@home.example>;tag=0123456789abcdef-1|Call-ID: call1|CSeq: 7 INVITE|Content-Length: 0|
at 150 to 1|CANCEL sip:bob@home.example SIP/2.0|Via: SIP/2.0/UDP 127.0.0.1:5060;branch=z9hG4bK0123456789abcdef-4|Max-Forwards: 70
|From: "Alice" <sip:alice@home.example>;tag=0123456789abcdef-3|To: <sip:bob@home.example>|Call-ID: 0123456789abcdef-2|CSeq: 1 CANCEL|Content-Length: 0|
~ She hangs up before anything came of him.
at 0 peer 1|INVITE sip:vm@far.example SIP/2.0|Via: SIP/2.0/UDP 127.0.0.1:5071;branch=z9hG4bKA|Max-Forwards: 70|From: "Erin" <sip:erin@other.example>;tag=a
|To: <sip:vm@far.example>|Call-ID: c1|CSeq: 1 INVITE|Contact: <sip:x@127.0.0.1:5071>|P-Asserted-Identity: <sip:erin@other.example>|Content-Length: 0|
at 10 peer 1|BYE sip:127.0.0.1:5060 SIP/2.0|Via: SIP/2.0/UDP 127.0.0.1:5071;branch=z9hG4bKB|Max-Forwards: 70|From: "Erin" <sip:erin@other.example>;tag=a
|To: <sip:vm@far.example>;tag=0123456789abcdef-1|Call-ID: c1|CSeq: 2 BYE|Content-Length: 0|
~ 200 and 487.
at 0 to 1|SIP/2.0 100 Trying|Via: SIP/2.0/UDP 127.0.0.1:5071;branch=z9hG4bKA|From: "Erin" <sip:erin@other.example>;tag=a|To: <sip:vm@far.example>|Call-ID: c1
|CSeq: 1 INVITE|Content-Length: 0|
at 0 to 2|INVITE sip:vm@far.example SIP/2.0|Via: SIP/2.0/UDP 127.0.0.1:5060;branch=z9hG4bK0123456789abcdef-4|Max-Forwards: 69
|From: "Erin" <sip:erin@other.example>;tag=0123456789abcdef-3|To: <sip:vm@far.example>|Call-ID: 0123456789abcdef-2|CSeq: 1 INVITE|Contact: <sip:127.0.0.1:5060>
|P-Asserted-Identity: <sip:erin@other.example>|Content-Length: 0|
at 10 to 1|SIP/2.0 200 OK|Via: SIP/2.0/UDP 127.0.0.1:5071;branch=z9hG4bKB|From: "Erin" <sip:erin@other.example>;tag=a|To: <sip:vm@far.example>;tag=0123456789abcdef-1
|Call-ID: c1|CSeq: 2 BYE|Content-Length: 0|
at 10 to 1|SIP/2.0 487 Request Terminated|Via: SIP/2.0/UDP 127.0.0.1:5071;branch=z9hG4bKA|From: "Erin" <sip:erin@other.example>;tag=a
|To: <sip:vm@far.example>;tag=0123456789abcdef-1|Call-ID: c1|CSeq: 1 INVITE|Content-Length: 0|
~ While he rings bob hangs up, alice asks again, and bob asks.
at 0 peer 1|INVITE sip:bob@home.example SIP/2.0|Via: SIP/2.0/UDP 127.0.0.1:5071;branch=z9hG4bKc1|Max-Forwards: 68|From: "Alice" <sip:alice@home.example>;tag=t1
|To: <sip:bob@home.example>|Call-ID: call1|CSeq: 7 INVITE|Contact: <sip:alice@127.0.0.1:5071>|P-Asserted-Identity: <sip:alice@home.example>|Content-Length: 0|
at 100 peer 1|SIP/2.0 180 Ringing|Via: SIP/2.0/UDP 127.0.0.1:5060;branch=z9hG4bK0123456789abcdef-4|From: "Alice" <sip:alice@home.example>;tag=0123456789abcdef-3
|To: <sip:bob@home.example>;tag=b1|Call-ID: 0123456789abcdef-2|CSeq: 1 INVITE|Content-Length: 0|
at 110 peer 1|BYE sip:127.0.0.1:5060 SIP/2.0|Via: SIP/2.0/UDP 127.0.0.1:5071;branch=z9hG4bKg1|Max-Forwards: 68|From: <sip:bob@home.example>;tag=b1
|To: "Alice" <sip:alice@home.example>;tag=0123456789abcdef-3|Call-ID: 0123456789abcdef-2|CSeq: 5 BYE|Content-Length: 0|
at 120 peer 1|INVITE sip:127.0.0.1:5060 SIP/2.0|Via: SIP/2.0/UDP 127.0.0.1:5071;branch=z9hG4bKh1|Max-Forwards: 68|From: "Alice" <sip:alice@home.example>;tag=t1
|To: <sip:bob@home.example>;tag=0123456789abcdef-1|Call-ID: call1|CSeq: 8 INVITE|Contact: <sip:alice@127.0.0.1:5071>|Content-Length: 0|
at 130 peer 1|INVITE sip:127.0.0.1:5060 SIP/2.0|Via: SIP/2.0/UDP 127.0.0.1:5071;branch=z9hG4bKg2|Max-Forwards: 68|From: <sip:bob@home.example>;tag=b1
|To: "Alice" <sip:alice@home.example>;tag=0123456789abcdef-3|Call-ID: 0123456789abcdef-2|CSeq: 6 INVITE|Contact: <sip:bob1@127.0.0.1:5071>|Content-Length: 0|
~ 481, 500 with Retry-After, and 491 (RFC 3261 section 14.2).
at 0 to 1|SIP/2.0 100 Trying|Via: SIP/2.0/UDP 127.0.0.1:5071;branch=z9hG4bKc1|From: "Alice" <sip:alice@home.example>;tag=t1|To: <sip:bob@home.example>|Call-ID: call1
|CSeq: 7 INVITE|Content-Length: 0|
at 0 to 1|INVITE sip:bob@home.example SIP/2.0|Via: SIP/2.0/UDP 127.0.0.1:5060;branch=z9hG4bK0123456789abcdef-4|Max-Forwards: 67
|From: "Alice" <sip:alice@home.example>;tag=0123456789abcdef-3|To: <sip:bob@home.example>|Call-ID: 0123456789abcdef-2|CSeq: 1 INVITE|Contact: <sip:127.0.0.1:5060>
|P-Asserted-Identity: <sip:alice@home.example>|Content-Length: 0|
at 100 to 1|SIP/2.0 180 Ringing|Via: SIP/2.0/UDP 127.0.0.1:5071;branch=z9hG4bKc1|From: "Alice" <sip:alice@home.example>;tag=t1
|To: <sip:bob@home.example>;tag=0123456789abcdef-1|Call-ID: call1|CSeq: 7 INVITE|Contact: <sip:127.0.0.1:5060>|Content-Length: 0|
at 110 to 1|SIP/2.0 481 Call/Transaction Does Not Exist|Via: SIP/2.0/UDP 127.0.0.1:5071;branch=z9hG4bKg1|From: <sip:bob@home.example>;tag=b1
|To: "Alice" <sip:alice@home.example>;tag=0123456789abcdef-3|Call-ID: 0123456789abcdef-2|CSeq: 5 BYE|Content-Length: 0|
at 120 to 1|SIP/2.0 500 Server Internal Error|Via: SIP/2.0/UDP 127.0.0.1:5071;branch=z9hG4bKh1|From: "Alice" <sip:alice@home.example>;tag=t1
|To: <sip:bob@home.example>;tag=0123456789abcdef-1|Call-ID: call1|CSeq: 8 INVITE|Retry-After: 5|Content-Length: 0|
at 130 to 1|SIP/2.0 491 Request Pending|Via: SIP/2.0/UDP 127.0.0.1:5071;branch=z9hG4bKg2|From: <sip:bob@home.example>;tag=b1
|To: "Alice" <sip:alice@home.example>;tag=0123456789abcdef-3|Call-ID: 0123456789abcdef-2|CSeq: 6 INVITE|Content-Length: 0|
~ While he rings alice asks with an old number.
at 0 peer 1|INVITE sip:bob@home.example SIP/2.0|Via: SIP/2.0/UDP 127.0.0.1:5071;branch=z9hG4bKc1|Max-Forwards: 68|From: "Alice" <sip:alice@home.example>;tag=t1
|To: <sip:bob@home.example>|Call-ID: call1|CSeq: 7 INVITE|Contact: <sip:alice@127.0.0.1:5071>|P-Asserted-Identity: <sip:alice@home.example>|Content-Length: 0|
at 100 peer 1|SIP/2.0 180 Ringing|Via: SIP/2.0/UDP 127.0.0.1:5060;branch=z9hG4bK0123456789abcdef-4|From: "Alice" <sip:alice@home.example>;tag=0123456789abcdef-3
|To: <sip:bob@home.example>;tag=b1|Call-ID: 0123456789abcdef-2|CSeq: 1 INVITE|Content-Length: 0|
at 120 peer 1|INVITE sip:127.0.0.1:5060 SIP/2.0|Via: SIP/2.0/UDP 127.0.0.1:5071;branch=z9hG4bKh1|Max-Forwards: 68|From: "Alice" <sip:alice@home.example>;tag=t1
|To: <sip:bob@home.example>;tag=0123456789abcdef-1|Call-ID: call1|CSeq: 6 INVITE|Contact: <sip:alice@127.0.0.1:5071>|Content-Length: 0|
~ 500.
at 0 to 1|SIP/2.0 100 Trying|Via: SIP/2.0/UDP 127.0.0.1:5071;branch=z9hG4bKc1|From: "Alice" <sip:alice@home.example>;tag=t1|To: <sip:bob@home.example>|Call-ID: call1
|CSeq: 7 INVITE|Content-Length: 0|
at 0 to 1|INVITE sip:bob@home.example SIP/2.0|Via: SIP/2.0/UDP 127.0.0.1:5060;branch=z9hG4bK0123456789abcdef-4|Max-Forwards: 67
|From: "Alice" <sip:alice@home.example>;tag=0123456789abcdef-3|To: <sip:bob@home.example>|Call-ID: 0123456789abcdef-2|CSeq: 1 INVITE|Contact: <sip:127.0.0.1:5060>
|P-Asserted-Identity: <sip:alice@home.example>|Content-Length: 0|
at 100 to 1|SIP/2.0 180 Ringing|Via: SIP/2.0/UDP 127.0.0.1:5071;branch=z9hG4bKc1|From: "Alice" <sip:alice@home.example>;tag=t1
|To: <sip:bob@home.example>;tag=0123456789abcdef-1|Call-ID: call1|CSeq: 7 INVITE|Contact: <sip:127.0.0.1:5060>|Content-Length: 0|
at 120 to 1|SIP/2.0 500 Server Internal Error|Via: SIP/2.0/UDP 127.0.0.1:5071;branch=z9hG4bKh1|From: "Alice" <sip:alice@home.example>;tag=t1
|To: <sip:bob@home.example>;tag=0123456789abcdef-1|Call-ID: call1|CSeq: 6 INVITE|Content-Length: 0|
"#;

#[test]
fn ringing(rt: HostRuntime) {
    assert_right(&rt, "RINGING", wrong_run(rt.alloc(), RINGING));
}

/// From the answer on, and how a call ends.
const ANSWERED: &[u8] = br#"~ The ACK of the 200 has another number.
at 0 peer 1|INVITE sip:bob@home.example SIP/2.0|Via: SIP/2.0/UDP 127.0.0.1:5071;branch=z9hG4bKc1|Max-Forwards: 68|From: "Alice" <sip:alice@home.example>;tag=t1
|To: <sip:bob@home.example>|Call-ID: call1|CSeq: 7 INVITE|Contact: <sip:alice@127.0.0.1:5071>|P-Asserted-Identity: <sip:alice@home.example>|Content-Length: 0|
at 200 peer 1|SIP/2.0 200 OK|Via: SIP/2.0/UDP 127.0.0.1:5060;branch=z9hG4bK0123456789abcdef-4|From: "Alice" <sip:alice@home.example>;tag=0123456789abcdef-3
|To: <sip:bob@home.example>;tag=b1|Call-ID: 0123456789abcdef-2|CSeq: 1 INVITE|Contact: <sip:bob1@127.0.0.1:5071>|Content-Length: 0|
at 300 peer 1|ACK sip:127.0.0.1:5060 SIP/2.0|Via: SIP/2.0/UDP 127.0.0.1:5071;branch=z9hG4bKk|Max-Forwards: 68|From: "Alice" <sip:alice@home.example>;tag=t1
|To: <sip:bob@home.example>;tag=0123456789abcdef-1|Call-ID: call1|CSeq: 8 ACK|Content-Length: 0|
at 700 quiet
~ Nothing, and the 200 is sent again.
at 0 to 1|SIP/2.0 100 Trying|Via: SIP/2.0/UDP 127.0.0.1:5071;branch=z9hG4bKc1|From: "Alice" <sip:alice@home.example>;tag=t1|To: <sip:bob@home.example>|Call-ID: call1
|CSeq: 7 INVITE|Content-Length: 0|
at 0 to 1|INVITE sip:bob@home.example SIP/2.0|Via: SIP/2.0/UDP 127.0.0.1:5060;branch=z9hG4bK0123456789abcdef-4|Max-Forwards: 67
|From: "Alice" <sip:alice@home.example>;tag=0123456789abcdef-3|To: <sip:bob@home.example>|Call-ID: 0123456789abcdef-2|CSeq: 1 INVITE|Contact: <sip:127.0.0.1:5060>
|P-Asserted-Identity: <sip:alice@home.example>|Content-Length: 0|
at 200 to 1|SIP/2.0 200 OK|Via: SIP/2.0/UDP 127.0.0.1:5071;branch=z9hG4bKc1|From: "Alice" <sip:alice@home.example>;tag=t1
|To: <sip:bob@home.example>;tag=0123456789abcdef-1|Call-ID: call1|CSeq: 7 INVITE|Contact: <sip:127.0.0.1:5060>|Content-Length: 0|
at 700 to 1|SIP/2.0 200 OK|Via: SIP/2.0/UDP 127.0.0.1:5071;branch=z9hG4bKc1|From: "Alice" <sip:alice@home.example>;tag=t1
|To: <sip:bob@home.example>;tag=0123456789abcdef-1|Call-ID: call1|CSeq: 7 INVITE|Contact: <sip:127.0.0.1:5060>|Content-Length: 0|
~ Before the ACK bob answers again, alice cancels, and both ask.
at 0 peer 1|INVITE sip:bob@home.example SIP/2.0|Via: SIP/2.0/UDP 127.0.0.1:5071;branch=z9hG4bKc1|Max-Forwards: 68|From: "Alice" <sip:alice@home.example>;tag=t1
|To: <sip:bob@home.example>|Call-ID: call1|CSeq: 7 INVITE|Contact: <sip:alice@127.0.0.1:5071>|P-Asserted-Identity: <sip:alice@home.example>|Content-Length: 0|
at 200 peer 1|SIP/2.0 200 OK|Via: SIP/2.0/UDP 127.0.0.1:5060;branch=z9hG4bK0123456789abcdef-4|From: "Alice" <sip:alice@home.example>;tag=0123456789abcdef-3
|To: <sip:bob@home.example>;tag=b1|Call-ID: 0123456789abcdef-2|CSeq: 1 INVITE|Contact: <sip:bob1@127.0.0.1:5071>|Content-Length: 0|
at 210 peer 1|SIP/2.0 200 OK|Via: SIP/2.0/UDP 127.0.0.1:5060;branch=z9hG4bK0123456789abcdef-4|From: "Alice" <sip:alice@home.example>;tag=0123456789abcdef-3
|To: <sip:bob@home.example>;tag=b1|Call-ID: 0123456789abcdef-2|CSeq: 1 INVITE|Contact: <sip:bob1@127.0.0.1:5071>|Content-Length: 0|
at 220 peer 1|CANCEL sip:bob@home.example SIP/2.0|Via: SIP/2.0/UDP 127.0.0.1:5071;branch=z9hG4bKc1|Max-Forwards: 68|From: "Alice" <sip:alice@home.example>;tag=t1
|To: <sip:bob@home.example>|Call-ID: call1|CSeq: 7 CANCEL|Content-Length: 0|
at 230 peer 1|INVITE sip:127.0.0.1:5060 SIP/2.0|Via: SIP/2.0/UDP 127.0.0.1:5071;branch=z9hG4bKh1|Max-Forwards: 68|From: "Alice" <sip:alice@home.example>;tag=t1
|To: <sip:bob@home.example>;tag=0123456789abcdef-1|Call-ID: call1|CSeq: 8 INVITE|Contact: <sip:alice@127.0.0.1:5071>|Content-Length: 0|
at 240 peer 1|INVITE sip:127.0.0.1:5060 SIP/2.0|Via: SIP/2.0/UDP 127.0.0.1:5071;branch=z9hG4bKg1|Max-Forwards: 68|From: <sip:bob@home.example>;tag=b1
|To: "Alice" <sip:alice@home.example>;tag=0123456789abcdef-3|Call-ID: 0123456789abcdef-2|CSeq: 1 INVITE|Contact: <sip:bob1@127.0.0.1:5071>|Content-Length: 0|
~ Nothing for the answer, 200 for the CANCEL, and 491 twice.
at 0 to 1|SIP/2.0 100 Trying|Via: SIP/2.0/UDP 127.0.0.1:5071;branch=z9hG4bKc1|From: "Alice" <sip:alice@home.example>;tag=t1|To: <sip:bob@home.example>|Call-ID: call1
|CSeq: 7 INVITE|Content-Length: 0|
at 0 to 1|INVITE sip:bob@home.example SIP/2.0|Via: SIP/2.0/UDP 127.0.0.1:5060;branch=z9hG4bK0123456789abcdef-4|Max-Forwards: 67
|From: "Alice" <sip:alice@home.example>;tag=0123456789abcdef-3|To: <sip:bob@home.example>|Call-ID: 0123456789abcdef-2|CSeq: 1 INVITE|Contact: <sip:127.0.0.1:5060>
|P-Asserted-Identity: <sip:alice@home.example>|Content-Length: 0|
at 200 to 1|SIP/2.0 200 OK|Via: SIP/2.0/UDP 127.0.0.1:5071;branch=z9hG4bKc1|From: "Alice" <sip:alice@home.example>;tag=t1
|To: <sip:bob@home.example>;tag=0123456789abcdef-1|Call-ID: call1|CSeq: 7 INVITE|Contact: <sip:127.0.0.1:5060>|Content-Length: 0|
at 220 to 1|SIP/2.0 200 OK|Via: SIP/2.0/UDP 127.0.0.1:5071;branch=z9hG4bKc1|From: "Alice" <sip:alice@home.example>;tag=t1
|To: <sip:bob@home.example>;tag=0123456789abcdef-1|Call-ID: call1|CSeq: 7 CANCEL|Content-Length: 0|
at 230 to 1|SIP/2.0 491 Request Pending|Via: SIP/2.0/UDP 127.0.0.1:5071;branch=z9hG4bKh1|From: "Alice" <sip:alice@home.example>;tag=t1
|To: <sip:bob@home.example>;tag=0123456789abcdef-1|Call-ID: call1|CSeq: 8 INVITE|Content-Length: 0|
at 240 to 1|SIP/2.0 491 Request Pending|Via: SIP/2.0/UDP 127.0.0.1:5071;branch=z9hG4bKg1|From: <sip:bob@home.example>;tag=b1
|To: "Alice" <sip:alice@home.example>;tag=0123456789abcdef-3|Call-ID: 0123456789abcdef-2|CSeq: 1 INVITE|Content-Length: 0|
~ No ACK comes for 32,000.
at 0 peer 1|INVITE sip:bob@home.example SIP/2.0|Via: SIP/2.0/UDP 127.0.0.1:5071;branch=z9hG4bKc1|Max-Forwards: 68|From: "Alice" <sip:alice@home.example>;tag=t1
|To: <sip:bob@home.example>|Call-ID: call1|CSeq: 7 INVITE|Contact: <sip:alice@127.0.0.1:5071>|P-Asserted-Identity: <sip:alice@home.example>|Content-Length: 0|
at 200 peer 1|SIP/2.0 200 OK|Via: SIP/2.0/UDP 127.0.0.1:5060;branch=z9hG4bK0123456789abcdef-4|From: "Alice" <sip:alice@home.example>;tag=0123456789abcdef-3
|To: <sip:bob@home.example>;tag=b1|Call-ID: 0123456789abcdef-2|CSeq: 1 INVITE|Contact: <sip:bob1@127.0.0.1:5071>|Content-Length: 0|
at 32200 quiet
~ The 200 is sent again until then; then ACK and BYE to bob, and BYE to alice (RFC 3261 section 13.3.1.4).
at 0 to 1|SIP/2.0 100 Trying|Via: SIP/2.0/UDP 127.0.0.1:5071;branch=z9hG4bKc1|From: "Alice" <sip:alice@home.example>;tag=t1|To: <sip:bob@home.example>|Call-ID: call1
|CSeq: 7 INVITE|Content-Length: 0|
at 0 to 1|INVITE sip:bob@home.example SIP/2.0|Via: SIP/2.0/UDP 127.0.0.1:5060;branch=z9hG4bK0123456789abcdef-4|Max-Forwards: 67
|From: "Alice" <sip:alice@home.example>;tag=0123456789abcdef-3|To: <sip:bob@home.example>|Call-ID: 0123456789abcdef-2|CSeq: 1 INVITE|Contact: <sip:127.0.0.1:5060>
|P-Asserted-Identity: <sip:alice@home.example>|Content-Length: 0|
at 200 to 1|SIP/2.0 200 OK|Via: SIP/2.0/UDP 127.0.0.1:5071;branch=z9hG4bKc1|From: "Alice" <sip:alice@home.example>;tag=t1
|To: <sip:bob@home.example>;tag=0123456789abcdef-1|Call-ID: call1|CSeq: 7 INVITE|Contact: <sip:127.0.0.1:5060>|Content-Length: 0|
at 700 to 1|SIP/2.0 200 OK|Via: SIP/2.0/UDP 127.0.0.1:5071;branch=z9hG4bKc1|From: "Alice" <sip:alice@home.example>;tag=t1
|To: <sip:bob@home.example>;tag=0123456789abcdef-1|Call-ID: call1|CSeq: 7 INVITE|Contact: <sip:127.0.0.1:5060>|Content-Length: 0|
at 1700 to 1|SIP/2.0 200 OK|Via: SIP/2.0/UDP 127.0.0.1:5071;branch=z9hG4bKc1|From: "Alice" <sip:alice@home.example>;tag=t1
|To: <sip:bob@home.example>;tag=0123456789abcdef-1|Call-ID: call1|CSeq: 7 INVITE|Contact: <sip:127.0.0.1:5060>|Content-Length: 0|
at 3700 to 1|SIP/2.0 200 OK|Via: SIP/2.0/UDP 127.0.0.1:5071;branch=z9hG4bKc1|From: "Alice" <sip:alice@home.example>;tag=t1
|To: <sip:bob@home.example>;tag=0123456789abcdef-1|Call-ID: call1|CSeq: 7 INVITE|Contact: <sip:127.0.0.1:5060>|Content-Length: 0|
at 7700 to 1|SIP/2.0 200 OK|Via: SIP/2.0/UDP 127.0.0.1:5071;branch=z9hG4bKc1|From: "Alice" <sip:alice@home.example>;tag=t1
|To: <sip:bob@home.example>;tag=0123456789abcdef-1|Call-ID: call1|CSeq: 7 INVITE|Contact: <sip:127.0.0.1:5060>|Content-Length: 0|
at 11700 to 1|SIP/2.0 200 OK|Via: SIP/2.0/UDP 127.0.0.1:5071;branch=z9hG4bKc1|From: "Alice" <sip:alice@home.example>;tag=t1
|To: <sip:bob@home.example>;tag=0123456789abcdef-1|Call-ID: call1|CSeq: 7 INVITE|Contact: <sip:127.0.0.1:5060>|Content-Length: 0|
at 15700 to 1|SIP/2.0 200 OK|Via: SIP/2.0/UDP 127.0.0.1:5071;branch=z9hG4bKc1|From: "Alice" <sip:alice@home.example>;tag=t1
|To: <sip:bob@home.example>;tag=0123456789abcdef-1|Call-ID: call1|CSeq: 7 INVITE|Contact: <sip:127.0.0.1:5060>|Content-Length: 0|
at 19700 to 1|SIP/2.0 200 OK|Via: SIP/2.0/UDP 127.0.0.1:5071;branch=z9hG4bKc1|From: "Alice" <sip:alice@home.example>;tag=t1
|To: <sip:bob@home.example>;tag=0123456789abcdef-1|Call-ID: call1|CSeq: 7 INVITE|Contact: <sip:127.0.0.1:5060>|Content-Length: 0|
at 23700 to 1|SIP/2.0 200 OK|Via: SIP/2.0/UDP 127.0.0.1:5071;branch=z9hG4bKc1|From: "Alice" <sip:alice@home.example>;tag=t1
|To: <sip:bob@home.example>;tag=0123456789abcdef-1|Call-ID: call1|CSeq: 7 INVITE|Contact: <sip:127.0.0.1:5060>|Content-Length: 0|
at 27700 to 1|SIP/2.0 200 OK|Via: SIP/2.0/UDP 127.0.0.1:5071;branch=z9hG4bKc1|From: "Alice" <sip:alice@home.example>;tag=t1
|To: <sip:bob@home.example>;tag=0123456789abcdef-1|Call-ID: call1|CSeq: 7 INVITE|Contact: <sip:127.0.0.1:5060>|Content-Length: 0|
at 31700 to 1|SIP/2.0 200 OK|Via: SIP/2.0/UDP 127.0.0.1:5071;branch=z9hG4bKc1|From: "Alice" <sip:alice@home.example>;tag=t1
|To: <sip:bob@home.example>;tag=0123456789abcdef-1|Call-ID: call1|CSeq: 7 INVITE|Contact: <sip:127.0.0.1:5060>|Content-Length: 0|
at 32200 to 1|ACK sip:bob1@127.0.0.1:5071 SIP/2.0|Via: SIP/2.0/UDP 127.0.0.1:5060;branch=z9hG4bK0123456789abcdef-5|Max-Forwards: 70
|From: "Alice" <sip:alice@home.example>;tag=0123456789abcdef-3|To: <sip:bob@home.example>;tag=b1|Call-ID: 0123456789abcdef-2|CSeq: 1 ACK|Content-Length: 0|
at 32200 to 1|BYE sip:bob1@127.0.0.1:5071 SIP/2.0|Via: SIP/2.0/UDP 127.0.0.1:5060;branch=z9hG4bK0123456789abcdef-6|Max-Forwards: 70
|From: "Alice" <sip:alice@home.example>;tag=0123456789abcdef-3|To: <sip:bob@home.example>;tag=b1|Call-ID: 0123456789abcdef-2|CSeq: 2 BYE|Content-Length: 0|
at 32200 to 1|BYE sip:alice@127.0.0.1:5071 SIP/2.0|Via: SIP/2.0/UDP 127.0.0.1:5060;branch=z9hG4bK0123456789abcdef-7|Max-Forwards: 70
|From: <sip:bob@home.example>;tag=0123456789abcdef-1|To: "Alice" <sip:alice@home.example>;tag=t1|Call-ID: call1|CSeq: 1 BYE|Content-Length: 0|
~ Before the ACK alice hangs up.
at 0 peer 1|INVITE sip:bob@home.example SIP/2.0|Via: SIP/2.0/UDP 127.0.0.1:5071;branch=z9hG4bKc1|Max-Forwards: 68|From: "Alice" <sip:alice@home.example>;tag=t1
|To: <sip:bob@home.example>|Call-ID: call1|CSeq: 7 INVITE|Contact: <sip:alice@127.0.0.1:5071>|P-Asserted-Identity: <sip:alice@home.example>|Content-Length: 0|
at 200 peer 1|SIP/2.0 200 OK|Via: SIP/2.0/UDP 127.0.0.1:5060;branch=z9hG4bK0123456789abcdef-4|From: "Alice" <sip:alice@home.example>;tag=0123456789abcdef-3
|To: <sip:bob@home.example>;tag=b1|Call-ID: 0123456789abcdef-2|CSeq: 1 INVITE|Contact: <sip:bob1@127.0.0.1:5071>|Content-Length: 0|
at 300 peer 1|BYE sip:127.0.0.1:5060 SIP/2.0|Via: SIP/2.0/UDP 127.0.0.1:5071;branch=z9hG4bKy|Max-Forwards: 68|From: "Alice" <sip:alice@home.example>;tag=t1
|To: <sip:bob@home.example>;tag=0123456789abcdef-1|Call-ID: call1|CSeq: 8 BYE|Content-Length: 0|
~ 200, and ACK and BYE to bob.
at 0 to 1|SIP/2.0 100 Trying|Via: SIP/2.0/UDP 127.0.0.1:5071;branch=z9hG4bKc1|From: "Alice" <sip:alice@home.example>;tag=t1|To: <sip:bob@home.example>|Call-ID: call1
|CSeq: 7 INVITE|Content-Length: 0|
at 0 to 1|INVITE sip:bob@home.example SIP/2.0|Via: SIP/2.0/UDP 127.0.0.1:5060;branch=z9hG4bK0123456789abcdef-4|Max-Forwards: 67
|From: "Alice" <sip:alice@home.example>;tag=0123456789abcdef-3|To: <sip:bob@home.example>|Call-ID: 0123456789abcdef-2|CSeq: 1 INVITE|Contact: <sip:127.0.0.1:5060>
|P-Asserted-Identity: <sip:alice@home.example>|Content-Length: 0|
at 200 to 1|SIP/2.0 200 OK|Via: SIP/2.0/UDP 127.0.0.1:5071;branch=z9hG4bKc1|From: "Alice" <sip:alice@home.example>;tag=t1
|To: <sip:bob@home.example>;tag=0123456789abcdef-1|Call-ID: call1|CSeq: 7 INVITE|Contact: <sip:127.0.0.1:5060>|Content-Length: 0|
at 300 to 1|SIP/2.0 200 OK|Via: SIP/2.0/UDP 127.0.0.1:5071;branch=z9hG4bKy|From: "Alice" <sip:alice@home.example>;tag=t1|To: <sip:bob@home.example>;tag=0123456789abcdef-1
|Call-ID: call1|CSeq: 8 BYE|Content-Length: 0|
at 300 to 1|ACK sip:bob1@127.0.0.1:5071 SIP/2.0|Via: SIP/2.0/UDP 127.0.0.1:5060;branch=z9hG4bK0123456789abcdef-5|Max-Forwards: 70
|From: "Alice" <sip:alice@home.example>;tag=0123456789abcdef-3|To: <sip:bob@home.example>;tag=b1|Call-ID: 0123456789abcdef-2|CSeq: 1 ACK|Content-Length: 0|
at 300 to 1|BYE sip:bob1@127.0.0.1:5071 SIP/2.0|Via: SIP/2.0/UDP 127.0.0.1:5060;branch=z9hG4bK0123456789abcdef-6|Max-Forwards: 70
|From: "Alice" <sip:alice@home.example>;tag=0123456789abcdef-3|To: <sip:bob@home.example>;tag=b1|Call-ID: 0123456789abcdef-2|CSeq: 2 BYE|Content-Length: 0|
~ Before the ACK bob hangs up; then it comes.
at 0 peer 1|INVITE sip:bob@home.example SIP/2.0|Via: SIP/2.0/UDP 127.0.0.1:5071;branch=z9hG4bKc1|Max-Forwards: 68|From: "Alice" <sip:alice@home.example>;tag=t1
|To: <sip:bob@home.example>|Call-ID: call1|CSeq: 7 INVITE|Contact: <sip:alice@127.0.0.1:5071>|P-Asserted-Identity: <sip:alice@home.example>|Content-Length: 0|
at 200 peer 1|SIP/2.0 200 OK|Via: SIP/2.0/UDP 127.0.0.1:5060;branch=z9hG4bK0123456789abcdef-4|From: "Alice" <sip:alice@home.example>;tag=0123456789abcdef-3
|To: <sip:bob@home.example>;tag=b1|Call-ID: 0123456789abcdef-2|CSeq: 1 INVITE|Contact: <sip:bob1@127.0.0.1:5071>|Content-Length: 0|
at 300 peer 1|BYE sip:127.0.0.1:5060 SIP/2.0|Via: SIP/2.0/UDP 127.0.0.1:5071;branch=z9hG4bKg1|Max-Forwards: 68|From: <sip:bob@home.example>;tag=b1
|To: "Alice" <sip:alice@home.example>;tag=0123456789abcdef-3|Call-ID: 0123456789abcdef-2|CSeq: 1 BYE|Content-Length: 0|
at 400 peer 1|ACK sip:127.0.0.1:5060 SIP/2.0|Via: SIP/2.0/UDP 127.0.0.1:5071;branch=z9hG4bKk|Max-Forwards: 68|From: "Alice" <sip:alice@home.example>;tag=t1
|To: <sip:bob@home.example>;tag=0123456789abcdef-1|Call-ID: call1|CSeq: 7 ACK|Content-Length: 0|
~ 200, and then BYE to alice.
at 0 to 1|SIP/2.0 100 Trying|Via: SIP/2.0/UDP 127.0.0.1:5071;branch=z9hG4bKc1|From: "Alice" <sip:alice@home.example>;tag=t1|To: <sip:bob@home.example>|Call-ID: call1
|CSeq: 7 INVITE|Content-Length: 0|
at 0 to 1|INVITE sip:bob@home.example SIP/2.0|Via: SIP/2.0/UDP 127.0.0.1:5060;branch=z9hG4bK0123456789abcdef-4|Max-Forwards: 67
|From: "Alice" <sip:alice@home.example>;tag=0123456789abcdef-3|To: <sip:bob@home.example>|Call-ID: 0123456789abcdef-2|CSeq: 1 INVITE|Contact: <sip:127.0.0.1:5060>
|P-Asserted-Identity: <sip:alice@home.example>|Content-Length: 0|
at 200 to 1|SIP/2.0 200 OK|Via: SIP/2.0/UDP 127.0.0.1:5071;branch=z9hG4bKc1|From: "Alice" <sip:alice@home.example>;tag=t1
|To: <sip:bob@home.example>;tag=0123456789abcdef-1|Call-ID: call1|CSeq: 7 INVITE|Contact: <sip:127.0.0.1:5060>|Content-Length: 0|
at 300 to 1|SIP/2.0 200 OK|Via: SIP/2.0/UDP 127.0.0.1:5071;branch=z9hG4bKg1|From: <sip:bob@home.example>;tag=b1
|To: "Alice" <sip:alice@home.example>;tag=0123456789abcdef-3|Call-ID: 0123456789abcdef-2|CSeq: 1 BYE|Content-Length: 0|
at 400 to 1|BYE sip:alice@127.0.0.1:5071 SIP/2.0|Via: SIP/2.0/UDP 127.0.0.1:5060;branch=z9hG4bK0123456789abcdef-5|Max-Forwards: 70
|From: <sip:bob@home.example>;tag=0123456789abcdef-1|To: "Alice" <sip:alice@home.example>;tag=t1|Call-ID: call1|CSeq: 1 BYE|Content-Length: 0|
~ It does not come.
at 0 peer 1|INVITE sip:bob@home.example SIP/2.0|Via: SIP/2.0/UDP 127.0.0.1:5071;branch=z9hG4bKc1|Max-Forwards: 68|From: "Alice" <sip:alice@home.example>;tag=t1
|To: <sip:bob@home.example>|Call-ID: call1|CSeq: 7 INVITE|Contact: <sip:alice@127.0.0.1:5071>|P-Asserted-Identity: <sip:alice@home.example>|Content-Length: 0|
at 200 peer 1|SIP/2.0 200 OK|Via: SIP/2.0/UDP 127.0.0.1:5060;branch=z9hG4bK0123456789abcdef-4|From: "Alice" <sip:alice@home.example>;tag=0123456789abcdef-3
|To: <sip:bob@home.example>;tag=b1|Call-ID: 0123456789abcdef-2|CSeq: 1 INVITE|Contact: <sip:bob1@127.0.0.1:5071>|Content-Length: 0|
at 300 peer 1|BYE sip:127.0.0.1:5060 SIP/2.0|Via: SIP/2.0/UDP 127.0.0.1:5071;branch=z9hG4bKg1|Max-Forwards: 68|From: <sip:bob@home.example>;tag=b1
|To: "Alice" <sip:alice@home.example>;tag=0123456789abcdef-3|Call-ID: 0123456789abcdef-2|CSeq: 1 BYE|Content-Length: 0|
at 32200 quiet
~ BYE to alice after 32,000.
at 0 to 1|SIP/2.0 100 Trying|Via: SIP/2.0/UDP 127.0.0.1:5071;branch=z9hG4bKc1|From: "Alice" <sip:alice@home.example>;tag=t1|To: <sip:bob@home.example>|Call-ID: call1
|CSeq: 7 INVITE|Content-Length: 0|
at 0 to 1|INVITE sip:bob@home.example SIP/2.0|Via: SIP/2.0/UDP 127.0.0.1:5060;branch=z9hG4bK0123456789abcdef-4|Max-Forwards: 67
|From: "Alice" <sip:alice@home.example>;tag=0123456789abcdef-3|To: <sip:bob@home.example>|Call-ID: 0123456789abcdef-2|CSeq: 1 INVITE|Contact: <sip:127.0.0.1:5060>
|P-Asserted-Identity: <sip:alice@home.example>|Content-Length: 0|
at 200 to 1|SIP/2.0 200 OK|Via: SIP/2.0/UDP 127.0.0.1:5071;branch=z9hG4bKc1|From: "Alice" <sip:alice@home.example>;tag=t1
|To: <sip:bob@home.example>;tag=0123456789abcdef-1|Call-ID: call1|CSeq: 7 INVITE|Contact: <sip:127.0.0.1:5060>|Content-Length: 0|
at 300 to 1|SIP/2.0 200 OK|Via: SIP/2.0/UDP 127.0.0.1:5071;branch=z9hG4bKg1|From: <sip:bob@home.example>;tag=b1
|To: "Alice" <sip:alice@home.example>;tag=0123456789abcdef-3|Call-ID: 0123456789abcdef-2|CSeq: 1 BYE|Content-Length: 0|
at 700 to 1|SIP/2.0 200 OK|Via: SIP/2.0/UDP 127.0.0.1:5071;branch=z9hG4bKc1|From: "Alice" <sip:alice@home.example>;tag=t1
|To: <sip:bob@home.example>;tag=0123456789abcdef-1|Call-ID: call1|CSeq: 7 INVITE|Contact: <sip:127.0.0.1:5060>|Content-Length: 0|
at 1700 to 1|SIP/2.0 200 OK|Via: SIP/2.0/UDP 127.0.0.1:5071;branch=z9hG4bKc1|From: "Alice" <sip:alice@home.example>;tag=t1
|To: <sip:bob@home.example>;tag=0123456789abcdef-1|Call-ID: call1|CSeq: 7 INVITE|Contact: <sip:127.0.0.1:5060>|Content-Length: 0|
at 3700 to 1|SIP/2.0 200 OK|Via: SIP/2.0/UDP 127.0.0.1:5071;branch=z9hG4bKc1|From: "Alice" <sip:alice@home.example>;tag=t1
|To: <sip:bob@home.example>;tag=0123456789abcdef-1|Call-ID: call1|CSeq: 7 INVITE|Contact: <sip:127.0.0.1:5060>|Content-Length: 0|
at 7700 to 1|SIP/2.0 200 OK|Via: SIP/2.0/UDP 127.0.0.1:5071;branch=z9hG4bKc1|From: "Alice" <sip:alice@home.example>;tag=t1
|To: <sip:bob@home.example>;tag=0123456789abcdef-1|Call-ID: call1|CSeq: 7 INVITE|Contact: <sip:127.0.0.1:5060>|Content-Length: 0|
at 11700 to 1|SIP/2.0 200 OK|Via: SIP/2.0/UDP 127.0.0.1:5071;branch=z9hG4bKc1|From: "Alice" <sip:alice@home.example>;tag=t1
|To: <sip:bob@home.example>;tag=0123456789abcdef-1|Call-ID: call1|CSeq: 7 INVITE|Contact: <sip:127.0.0.1:5060>|Content-Length: 0|
at 15700 to 1|SIP/2.0 200 OK|Via: SIP/2.0/UDP 127.0.0.1:5071;branch=z9hG4bKc1|From: "Alice" <sip:alice@home.example>;tag=t1
|To: <sip:bob@home.example>;tag=0123456789abcdef-1|Call-ID: call1|CSeq: 7 INVITE|Contact: <sip:127.0.0.1:5060>|Content-Length: 0|
at 19700 to 1|SIP/2.0 200 OK|Via: SIP/2.0/UDP 127.0.0.1:5071;branch=z9hG4bKc1|From: "Alice" <sip:alice@home.example>;tag=t1
|To: <sip:bob@home.example>;tag=0123456789abcdef-1|Call-ID: call1|CSeq: 7 INVITE|Contact: <sip:127.0.0.1:5060>|Content-Length: 0|
at 23700 to 1|SIP/2.0 200 OK|Via: SIP/2.0/UDP 127.0.0.1:5071;branch=z9hG4bKc1|From: "Alice" <sip:alice@home.example>;tag=t1
|To: <sip:bob@home.example>;tag=0123456789abcdef-1|Call-ID: call1|CSeq: 7 INVITE|Contact: <sip:127.0.0.1:5060>|Content-Length: 0|
at 27700 to 1|SIP/2.0 200 OK|Via: SIP/2.0/UDP 127.0.0.1:5071;branch=z9hG4bKc1|From: "Alice" <sip:alice@home.example>;tag=t1
|To: <sip:bob@home.example>;tag=0123456789abcdef-1|Call-ID: call1|CSeq: 7 INVITE|Contact: <sip:127.0.0.1:5060>|Content-Length: 0|
at 31700 to 1|SIP/2.0 200 OK|Via: SIP/2.0/UDP 127.0.0.1:5071;branch=z9hG4bKc1|From: "Alice" <sip:alice@home.example>;tag=t1
|To: <sip:bob@home.example>;tag=0123456789abcdef-1|Call-ID: call1|CSeq: 7 INVITE|Contact: <sip:127.0.0.1:5060>|Content-Length: 0|
at 32200 to 1|BYE sip:alice@127.0.0.1:5071 SIP/2.0|Via: SIP/2.0/UDP 127.0.0.1:5060;branch=z9hG4bK0123456789abcdef-5|Max-Forwards: 70
|From: <sip:bob@home.example>;tag=0123456789abcdef-1|To: "Alice" <sip:alice@home.example>;tag=t1|Call-ID: call1|CSeq: 1 BYE|Content-Length: 0|
~ Then alice hangs up.
at 0 peer 1|INVITE sip:bob@home.example SIP/2.0|Via: SIP/2.0/UDP 127.0.0.1:5071;branch=z9hG4bKc1|Max-Forwards: 68|From: "Alice" <sip:alice@home.example>;tag=t1
|To: <sip:bob@home.example>|Call-ID: call1|CSeq: 7 INVITE|Contact: <sip:alice@127.0.0.1:5071>|P-Asserted-Identity: <sip:alice@home.example>|Content-Length: 0|
at 200 peer 1|SIP/2.0 200 OK|Via: SIP/2.0/UDP 127.0.0.1:5060;branch=z9hG4bK0123456789abcdef-4|From: "Alice" <sip:alice@home.example>;tag=0123456789abcdef-3
|To: <sip:bob@home.example>;tag=b1|Call-ID: 0123456789abcdef-2|CSeq: 1 INVITE|Contact: <sip:bob1@127.0.0.1:5071>|Content-Length: 0|
at 300 peer 1|BYE sip:127.0.0.1:5060 SIP/2.0|Via: SIP/2.0/UDP 127.0.0.1:5071;branch=z9hG4bKg1|Max-Forwards: 68|From: <sip:bob@home.example>;tag=b1
|To: "Alice" <sip:alice@home.example>;tag=0123456789abcdef-3|Call-ID: 0123456789abcdef-2|CSeq: 1 BYE|Content-Length: 0|
at 400 peer 1|BYE sip:127.0.0.1:5060 SIP/2.0|Via: SIP/2.0/UDP 127.0.0.1:5071;branch=z9hG4bKy|Max-Forwards: 68|From: "Alice" <sip:alice@home.example>;tag=t1
|To: <sip:bob@home.example>;tag=0123456789abcdef-1|Call-ID: call1|CSeq: 8 BYE|Content-Length: 0|
~ 200 to each.
at 0 to 1|SIP/2.0 100 Trying|Via: SIP/2.0/UDP 127.0.0.1:5071;branch=z9hG4bKc1|From: "Alice" <sip:alice@home.example>;tag=t1|To: <sip:bob@home.example>|Call-ID: call1
|CSeq: 7 INVITE|Content-Length: 0|
at 0 to 1|INVITE sip:bob@home.example SIP/2.0|Via: SIP/2.0/UDP 127.0.0.1:5060;branch=z9hG4bK0123456789abcdef-4|Max-Forwards: 67
|From: "Alice" <sip:alice@home.example>;tag=0123456789abcdef-3|To: <sip:bob@home.example>|Call-ID: 0123456789abcdef-2|CSeq: 1 INVITE|Contact: <sip:127.0.0.1:5060>
|P-Asserted-Identity: <sip:alice@home.example>|Content-Length: 0|
at 200 to 1|SIP/2.0 200 OK|Via: SIP/2.0/UDP 127.0.0.1:5071;branch=z9hG4bKc1|From: "Alice" <sip:alice@home.example>;tag=t1
|To: <sip:bob@home.example>;tag=0123456789abcdef-1|Call-ID: call1|CSeq: 7 INVITE|Contact: <sip:127.0.0.1:5060>|Content-Length: 0|
at 300 to 1|SIP/2.0 200 OK|Via: SIP/2.0/UDP 127.0.0.1:5071;branch=z9hG4bKg1|From: <sip:bob@home.example>;tag=b1
|To: "Alice" <sip:alice@home.example>;tag=0123456789abcdef-3|Call-ID: 0123456789abcdef-2|CSeq: 1 BYE|Content-Length: 0|
at 400 to 1|SIP/2.0 200 OK|Via: SIP/2.0/UDP 127.0.0.1:5071;branch=z9hG4bKy|From: "Alice" <sip:alice@home.example>;tag=t1|To: <sip:bob@home.example>;tag=0123456789abcdef-1
|Call-ID: call1|CSeq: 8 BYE|Content-Length: 0|
~ In a talking call the ACK comes again, and then the 200.
at 0 peer 1|INVITE sip:bob@home.example SIP/2.0|Via: SIP/2.0/UDP 127.0.0.1:5071;branch=z9hG4bKc1|Max-Forwards: 68|From: "Alice" <sip:alice@home.example>;tag=t1
|To: <sip:bob@home.example>|Call-ID: call1|CSeq: 7 INVITE|Contact: <sip:alice@127.0.0.1:5071>|P-Asserted-Identity: <sip:alice@home.example>|Content-Length: 0|
at 200 peer 1|SIP/2.0 200 OK|Via: SIP/2.0/UDP 127.0.0.1:5060;branch=z9hG4bK0123456789abcdef-4|From: "Alice" <sip:alice@home.example>;tag=0123456789abcdef-3
|To: <sip:bob@home.example>;tag=b1|Call-ID: 0123456789abcdef-2|CSeq: 1 INVITE|Contact: <sip:bob1@127.0.0.1:5071>|Content-Length: 0|
at 300 peer 1|ACK sip:127.0.0.1:5060 SIP/2.0|Via: SIP/2.0/UDP 127.0.0.1:5071;branch=z9hG4bKk1|Max-Forwards: 68|From: "Alice" <sip:alice@home.example>;tag=t1
|To: <sip:bob@home.example>;tag=0123456789abcdef-1|Call-ID: call1|CSeq: 7 ACK|Content-Length: 0|
at 310 peer 1|ACK sip:127.0.0.1:5060 SIP/2.0|Via: SIP/2.0/UDP 127.0.0.1:5071;branch=z9hG4bKk1|Max-Forwards: 68|From: "Alice" <sip:alice@home.example>;tag=t1
|To: <sip:bob@home.example>;tag=0123456789abcdef-1|Call-ID: call1|CSeq: 7 ACK|Content-Length: 0|
at 320 peer 1|SIP/2.0 200 OK|Via: SIP/2.0/UDP 127.0.0.1:5060;branch=z9hG4bK0123456789abcdef-4|From: "Alice" <sip:alice@home.example>;tag=0123456789abcdef-3
|To: <sip:bob@home.example>;tag=b1|Call-ID: 0123456789abcdef-2|CSeq: 1 INVITE|Contact: <sip:bob1@127.0.0.1:5071>|Content-Length: 0|
~ Nothing for the first; the second is acknowledged as it was.
at 0 to 1|SIP/2.0 100 Trying|Via: SIP/2.0/UDP 127.0.0.1:5071;branch=z9hG4bKc1|From: "Alice" <sip:alice@home.example>;tag=t1|To: <sip:bob@home.example>|Call-ID: call1
|CSeq: 7 INVITE|Content-Length: 0|
at 0 to 1|INVITE sip:bob@home.example SIP/2.0|Via: SIP/2.0/UDP 127.0.0.1:5060;branch=z9hG4bK0123456789abcdef-4|Max-Forwards: 67
|From: "Alice" <sip:alice@home.example>;tag=0123456789abcdef-3|To: <sip:bob@home.example>|Call-ID: 0123456789abcdef-2|CSeq: 1 INVITE|Contact: <sip:127.0.0.1:5060>
|P-Asserted-Identity: <sip:alice@home.example>|Content-Length: 0|
at 200 to 1|SIP/2.0 200 OK|Via: SIP/2.0/UDP 127.0.0.1:5071;branch=z9hG4bKc1|From: "Alice" <sip:alice@home.example>;tag=t1
|To: <sip:bob@home.example>;tag=0123456789abcdef-1|Call-ID: call1|CSeq: 7 INVITE|Contact: <sip:127.0.0.1:5060>|Content-Length: 0|
at 300 to 1|ACK sip:bob1@127.0.0.1:5071 SIP/2.0|Via: SIP/2.0/UDP 127.0.0.1:5060;branch=z9hG4bK0123456789abcdef-5|Max-Forwards: 67
|From: "Alice" <sip:alice@home.example>;tag=0123456789abcdef-3|To: <sip:bob@home.example>;tag=b1|Call-ID: 0123456789abcdef-2|CSeq: 1 ACK|Content-Length: 0|
at 320 to 1|ACK sip:bob1@127.0.0.1:5071 SIP/2.0|Via: SIP/2.0/UDP 127.0.0.1:5060;branch=z9hG4bK0123456789abcdef-5|Max-Forwards: 67
|From: "Alice" <sip:alice@home.example>;tag=0123456789abcdef-3|To: <sip:bob@home.example>;tag=b1|Call-ID: 0123456789abcdef-2|CSeq: 1 ACK|Content-Length: 0|
~ Alice hangs up with lines of her own; then bob does.
at 0 peer 1|INVITE sip:bob@home.example SIP/2.0|Via: SIP/2.0/UDP 127.0.0.1:5071;branch=z9hG4bKc1|Max-Forwards: 68|From: "Alice" <sip:alice@home.example>;tag=t1
|To: <sip:bob@home.example>|Call-ID: call1|CSeq: 7 INVITE|Contact: <sip:alice@127.0.0.1:5071>|P-Asserted-Identity: <sip:alice@home.example>|Content-Length: 0|
at 200 peer 1|SIP/2.0 200 OK|Via: SIP/2.0/UDP 127.0.0.1:5060;branch=z9hG4bK0123456789abcdef-4|From: "Alice" <sip:alice@home.example>;tag=0123456789abcdef-3
|To: <sip:bob@home.example>;tag=b1|Call-ID: 0123456789abcdef-2|CSeq: 1 INVITE|Contact: <sip:bob1@127.0.0.1:5071>|Content-Length: 0|
at 300 peer 1|ACK sip:127.0.0.1:5060 SIP/2.0|Via: SIP/2.0/UDP 127.0.0.1:5071;branch=z9hG4bKk1|Max-Forwards: 68|From: "Alice" <sip:alice@home.example>;tag=t1
|To: <sip:bob@home.example>;tag=0123456789abcdef-1|Call-ID: call1|CSeq: 7 ACK|Content-Length: 0|
at 400 peer 1|BYE sip:127.0.0.1:5060 SIP/2.0|Via: SIP/2.0/UDP 127.0.0.1:5071;branch=z9hG4bKy|Max-Forwards: 68|From: "Alice" <sip:alice@home.example>;tag=t1
|To: <sip:bob@home.example>;tag=0123456789abcdef-1|Call-ID: call1|CSeq: 8 BYE|Reason: Q.850;cause=16|Subject: x|Foo: y|Content-Length: 0|
at 500 peer 1|BYE sip:127.0.0.1:5060 SIP/2.0|Via: SIP/2.0/UDP 127.0.0.1:5071;branch=z9hG4bKg|Max-Forwards: 68|From: <sip:bob@home.example>;tag=b1
|To: "Alice" <sip:alice@home.example>;tag=0123456789abcdef-3|Call-ID: 0123456789abcdef-2|CSeq: 1 BYE|Content-Length: 0|
~ The lines that are passed go on to bob; he gets 481.
at 0 to 1|SIP/2.0 100 Trying|Via: SIP/2.0/UDP 127.0.0.1:5071;branch=z9hG4bKc1|From: "Alice" <sip:alice@home.example>;tag=t1|To: <sip:bob@home.example>|Call-ID: call1
|CSeq: 7 INVITE|Content-Length: 0|
at 0 to 1|INVITE sip:bob@home.example SIP/2.0|Via: SIP/2.0/UDP 127.0.0.1:5060;branch=z9hG4bK0123456789abcdef-4|Max-Forwards: 67
|From: "Alice" <sip:alice@home.example>;tag=0123456789abcdef-3|To: <sip:bob@home.example>|Call-ID: 0123456789abcdef-2|CSeq: 1 INVITE|Contact: <sip:127.0.0.1:5060>
|P-Asserted-Identity: <sip:alice@home.example>|Content-Length: 0|
at 200 to 1|SIP/2.0 200 OK|Via: SIP/2.0/UDP 127.0.0.1:5071;branch=z9hG4bKc1|From: "Alice" <sip:alice@home.example>;tag=t1
|To: <sip:bob@home.example>;tag=0123456789abcdef-1|Call-ID: call1|CSeq: 7 INVITE|Contact: <sip:127.0.0.1:5060>|Content-Length: 0|
at 300 to 1|ACK sip:bob1@127.0.0.1:5071 SIP/2.0|Via: SIP/2.0/UDP 127.0.0.1:5060;branch=z9hG4bK0123456789abcdef-5|Max-Forwards: 67
|From: "Alice" <sip:alice@home.example>;tag=0123456789abcdef-3|To: <sip:bob@home.example>;tag=b1|Call-ID: 0123456789abcdef-2|CSeq: 1 ACK|Content-Length: 0|
at 400 to 1|SIP/2.0 200 OK|Via: SIP/2.0/UDP 127.0.0.1:5071;branch=z9hG4bKy|From: "Alice" <sip:alice@home.example>;tag=t1|To: <sip:bob@home.example>;tag=0123456789abcdef-1
|Call-ID: call1|CSeq: 8 BYE|Content-Length: 0|
at 400 to 1|BYE sip:bob1@127.0.0.1:5071 SIP/2.0|Via: SIP/2.0/UDP 127.0.0.1:5060;branch=z9hG4bK0123456789abcdef-6|Max-Forwards: 67
|From: "Alice" <sip:alice@home.example>;tag=0123456789abcdef-3|To: <sip:bob@home.example>;tag=b1|Call-ID: 0123456789abcdef-2|CSeq: 2 BYE|Reason: Q.850;cause=16|Subject: x
|Content-Length: 0|
at 500 to 1|SIP/2.0 481 Call/Transaction Does Not Exist|Via: SIP/2.0/UDP 127.0.0.1:5071;branch=z9hG4bKg|From: <sip:bob@home.example>;tag=b1
|To: "Alice" <sip:alice@home.example>;tag=0123456789abcdef-3|Call-ID: 0123456789abcdef-2|CSeq: 1 BYE|Content-Length: 0|
~ Bob hangs up.
at 0 peer 1|INVITE sip:bob@home.example SIP/2.0|Via: SIP/2.0/UDP 127.0.0.1:5071;branch=z9hG4bKc1|Max-Forwards: 68|From: "Alice" <sip:alice@home.example>;tag=t1
|To: <sip:bob@home.example>|Call-ID: call1|CSeq: 7 INVITE|Contact: <sip:alice@127.0.0.1:5071>|P-Asserted-Identity: <sip:alice@home.example>|Content-Length: 0|
at 200 peer 1|SIP/2.0 200 OK|Via: SIP/2.0/UDP 127.0.0.1:5060;branch=z9hG4bK0123456789abcdef-4|From: "Alice" <sip:alice@home.example>;tag=0123456789abcdef-3
|To: <sip:bob@home.example>;tag=b1|Call-ID: 0123456789abcdef-2|CSeq: 1 INVITE|Contact: <sip:bob1@127.0.0.1:5071>|Content-Length: 0|
at 300 peer 1|ACK sip:127.0.0.1:5060 SIP/2.0|Via: SIP/2.0/UDP 127.0.0.1:5071;branch=z9hG4bKk1|Max-Forwards: 68|From: "Alice" <sip:alice@home.example>;tag=t1
|To: <sip:bob@home.example>;tag=0123456789abcdef-1|Call-ID: call1|CSeq: 7 ACK|Content-Length: 0|
at 400 peer 1|BYE sip:127.0.0.1:5060 SIP/2.0|Via: SIP/2.0/UDP 127.0.0.1:5071;branch=z9hG4bKg|Max-Forwards: 68|From: <sip:bob@home.example>;tag=b1
|To: "Alice" <sip:alice@home.example>;tag=0123456789abcdef-3|Call-ID: 0123456789abcdef-2|CSeq: 1 BYE|Content-Length: 0|
~ BYE to alice.
at 0 to 1|SIP/2.0 100 Trying|Via: SIP/2.0/UDP 127.0.0.1:5071;branch=z9hG4bKc1|From: "Alice" <sip:alice@home.example>;tag=t1|To: <sip:bob@home.example>|Call-ID: call1
|CSeq: 7 INVITE|Content-Length: 0|
at 0 to 1|INVITE sip:bob@home.example SIP/2.0|Via: SIP/2.0/UDP 127.0.0.1:5060;branch=z9hG4bK0123456789abcdef-4|Max-Forwards: 67
|From: "Alice" <sip:alice@home.example>;tag=0123456789abcdef-3|To: <sip:bob@home.example>|Call-ID: 0123456789abcdef-2|CSeq: 1 INVITE|Contact: <sip:127.0.0.1:5060>
|P-Asserted-Identity: <sip:alice@home.example>|Content-Length: 0|
at 200 to 1|SIP/2.0 200 OK|Via: SIP/2.0/UDP 127.0.0.1:5071;branch=z9hG4bKc1|From: "Alice" <sip:alice@home.example>;tag=t1
|To: <sip:bob@home.example>;tag=0123456789abcdef-1|Call-ID: call1|CSeq: 7 INVITE|Contact: <sip:127.0.0.1:5060>|Content-Length: 0|
at 300 to 1|ACK sip:bob1@127.0.0.1:5071 SIP/2.0|Via: SIP/2.0/UDP 127.0.0.1:5060;branch=z9hG4bK0123456789abcdef-5|Max-Forwards: 67
|From: "Alice" <sip:alice@home.example>;tag=0123456789abcdef-3|To: <sip:bob@home.example>;tag=b1|Call-ID: 0123456789abcdef-2|CSeq: 1 ACK|Content-Length: 0|
at 400 to 1|SIP/2.0 200 OK|Via: SIP/2.0/UDP 127.0.0.1:5071;branch=z9hG4bKg|From: <sip:bob@home.example>;tag=b1|To: "Alice" <sip:alice@home.example>;tag=0123456789abcdef-3
|Call-ID: 0123456789abcdef-2|CSeq: 1 BYE|Content-Length: 0|
at 400 to 1|BYE sip:alice@127.0.0.1:5071 SIP/2.0|Via: SIP/2.0/UDP 127.0.0.1:5060;branch=z9hG4bK0123456789abcdef-6|Max-Forwards: 67
|From: <sip:bob@home.example>;tag=0123456789abcdef-1|To: "Alice" <sip:alice@home.example>;tag=t1|Call-ID: call1|CSeq: 1 BYE|Content-Length: 0|
"#;

#[test]
fn answered(rt: HostRuntime) {
    assert_right(&rt, "ANSWERED", wrong_run(rt.alloc(), ANSWERED));
}

/// One side sends a re-INVITE.
const ASKING: &[u8] = br#"~ Bob asks alice for another session, and she agrees.
at 0 peer 1|INVITE sip:bob@home.example SIP/2.0|Via: SIP/2.0/UDP 127.0.0.1:5071;branch=z9hG4bKc1|Max-Forwards: 68|From: "Alice" <sip:alice@home.example>;tag=t1
|To: <sip:bob@home.example>|Call-ID: call1|CSeq: 7 INVITE|Contact: <sip:alice@127.0.0.1:5071>|P-Asserted-Identity: <sip:alice@home.example>|Content-Length: 0|
at 200 peer 1|SIP/2.0 200 OK|Via: SIP/2.0/UDP 127.0.0.1:5060;branch=z9hG4bK0123456789abcdef-4|From: "Alice" <sip:alice@home.example>;tag=0123456789abcdef-3
|To: <sip:bob@home.example>;tag=b1|Call-ID: 0123456789abcdef-2|CSeq: 1 INVITE|Contact: <sip:bob1@127.0.0.1:5071>|Content-Length: 0|
at 300 peer 1|ACK sip:127.0.0.1:5060 SIP/2.0|Via: SIP/2.0/UDP 127.0.0.1:5071;branch=z9hG4bKk1|Max-Forwards: 68|From: "Alice" <sip:alice@home.example>;tag=t1
|To: <sip:bob@home.example>;tag=0123456789abcdef-1|Call-ID: call1|CSeq: 7 ACK|Content-Length: 0|
at 1000 peer 1|INVITE sip:127.0.0.1:5060 SIP/2.0|Via: SIP/2.0/UDP 127.0.0.1:5071;branch=z9hG4bKg1|Max-Forwards: 68|From: <sip:bob@home.example>;tag=b1
|To: "Alice" <sip:alice@home.example>;tag=0123456789abcdef-3|Call-ID: 0123456789abcdef-2|CSeq: 1 INVITE|Contact: <sip:bob1@127.0.0.1:5071>|Content-Length: 0|
at 1010 peer 1|SIP/2.0 200 OK|Via: SIP/2.0/UDP 127.0.0.1:5060;branch=z9hG4bK0123456789abcdef-6|From: <sip:bob@home.example>;tag=0123456789abcdef-1
|To: "Alice" <sip:alice@home.example>;tag=t1|Call-ID: call1|CSeq: 1 INVITE|Contact: <sip:alice@127.0.0.1:5071>|Content-Length: 0|
at 1020 peer 1|ACK sip:127.0.0.1:5060 SIP/2.0|Via: SIP/2.0/UDP 127.0.0.1:5071;branch=z9hG4bKg2|Max-Forwards: 68|From: <sip:bob@home.example>;tag=b1
|To: "Alice" <sip:alice@home.example>;tag=0123456789abcdef-3|Call-ID: 0123456789abcdef-2|CSeq: 1 ACK|Content-Length: 0|
~ It goes through, and his ACK too.
at 0 to 1|SIP/2.0 100 Trying|Via: SIP/2.0/UDP 127.0.0.1:5071;branch=z9hG4bKc1|From: "Alice" <sip:alice@home.example>;tag=t1|To: <sip:bob@home.example>|Call-ID: call1
|CSeq: 7 INVITE|Content-Length: 0|
at 0 to 1|INVITE sip:bob@home.example SIP/2.0|Via: SIP/2.0/UDP 127.0.0.1:5060;branch=z9hG4bK0123456789abcdef-4|Max-Forwards: 67
|From: "Alice" <sip:alice@home.example>;tag=0123456789abcdef-3|To: <sip:bob@home.example>|Call-ID: 0123456789abcdef-2|CSeq: 1 INVITE|Contact: <sip:127.0.0.1:5060>
|P-Asserted-Identity: <sip:alice@home.example>|Content-Length: 0|
at 200 to 1|SIP/2.0 200 OK|Via: SIP/2.0/UDP 127.0.0.1:5071;branch=z9hG4bKc1|From: "Alice" <sip:alice@home.example>;tag=t1
|To: <sip:bob@home.example>;tag=0123456789abcdef-1|Call-ID: call1|CSeq: 7 INVITE|Contact: <sip:127.0.0.1:5060>|Content-Length: 0|
at 300 to 1|ACK sip:bob1@127.0.0.1:5071 SIP/2.0|Via: SIP/2.0/UDP 127.0.0.1:5060;branch=z9hG4bK0123456789abcdef-5|Max-Forwards: 67
|From: "Alice" <sip:alice@home.example>;tag=0123456789abcdef-3|To: <sip:bob@home.example>;tag=b1|Call-ID: 0123456789abcdef-2|CSeq: 1 ACK|Content-Length: 0|
at 1000 to 1|SIP/2.0 100 Trying|Via: SIP/2.0/UDP 127.0.0.1:5071;branch=z9hG4bKg1|From: <sip:bob@home.example>;tag=b1
|To: "Alice" <sip:alice@home.example>;tag=0123456789abcdef-3|Call-ID: 0123456789abcdef-2|CSeq: 1 INVITE|Content-Length: 0|
at 1000 to 1|INVITE sip:alice@127.0.0.1:5071 SIP/2.0|Via: SIP/2.0/UDP 127.0.0.1:5060;branch=z9hG4bK0123456789abcdef-6|Max-Forwards: 67
|From: <sip:bob@home.example>;tag=0123456789abcdef-1|To: "Alice" <sip:alice@home.example>;tag=t1|Call-ID: call1|CSeq: 1 INVITE|Contact: <sip:127.0.0.1:5060>
|Content-Length: 0|
at 1010 to 1|SIP/2.0 200 OK|Via: SIP/2.0/UDP 127.0.0.1:5071;branch=z9hG4bKg1|From: <sip:bob@home.example>;tag=b1
|To: "Alice" <sip:alice@home.example>;tag=0123456789abcdef-3|Call-ID: 0123456789abcdef-2|CSeq: 1 INVITE|Contact: <sip:127.0.0.1:5060>|Content-Length: 0|
at 1020 to 1|ACK sip:alice@127.0.0.1:5071 SIP/2.0|Via: SIP/2.0/UDP 127.0.0.1:5060;branch=z9hG4bK0123456789abcdef-7|Max-Forwards: 67
|From: <sip:bob@home.example>;tag=0123456789abcdef-1|To: "Alice" <sip:alice@home.example>;tag=t1|Call-ID: call1|CSeq: 1 ACK|Content-Length: 0|
~ In a call that was diverted once alice asks again.
# [communication-diversion]
# [[communication-diversion.rule]]
# target = "sip:vm@far.example"
at 0 web|PUT /simservs/2 HTTP/1.1|X-3GPP-Asserted-Identity: "sip:bob@home.example"|Content-Type: application/toml|Content-Length: 89|
x5b636f6d6d756e69636174696f6e2d646976657273696f6e5d0a5b5b636f6d6d756e69636174696f6e2d646976657273696f6e2e72756c655d5d0a746172676574203d20227369703a766d406661722e6578616d706c65220a
at 0 peer 1|INVITE sip:bob@home.example SIP/2.0|Via: SIP/2.0/UDP 127.0.0.1:5071;branch=z9hG4bKc1|Max-Forwards: 68|From: "Alice" <sip:alice@home.example>;tag=t1
|To: <sip:bob@home.example>|Call-ID: call1|CSeq: 7 INVITE|Contact: <sip:alice@127.0.0.1:5071>|P-Asserted-Identity: <sip:alice@home.example>|Content-Length: 0|
at 200 peer 2|SIP/2.0 200 OK|Via: SIP/2.0/UDP 127.0.0.1:5060;branch=z9hG4bK0123456789abcdef-4|From: "Alice" <sip:alice@home.example>;tag=0123456789abcdef-3
|To: <sip:vm@far.example>;tag=v1|Call-ID: 0123456789abcdef-2|CSeq: 1 INVITE|Contact: <sip:vm@127.0.0.1:5072>|Content-Length: 0|
at 300 peer 1|ACK sip:127.0.0.1:5060 SIP/2.0|Via: SIP/2.0/UDP 127.0.0.1:5071;branch=z9hG4bKk|Max-Forwards: 68|From: "Alice" <sip:alice@home.example>;tag=t1
|To: <sip:bob@home.example>;tag=0123456789abcdef-1|Call-ID: call1|CSeq: 7 ACK|Content-Length: 0|
at 1000 peer 1|INVITE sip:127.0.0.1:5060 SIP/2.0|Via: SIP/2.0/UDP 127.0.0.1:5071;branch=z9hG4bKh|Max-Forwards: 68|From: "Alice" <sip:alice@home.example>;tag=t1
|To: <sip:bob@home.example>;tag=0123456789abcdef-1|Call-ID: call1|CSeq: 8 INVITE|Contact: <sip:alice@127.0.0.1:5071>|Content-Length: 0|
~ The INVITE has the history too.
at 0 web|HTTP/1.1 200 OK|Content-Length: 0|Connection: close|
at 0 to 1|SIP/2.0 100 Trying|Via: SIP/2.0/UDP 127.0.0.1:5071;branch=z9hG4bKc1|From: "Alice" <sip:alice@home.example>;tag=t1|To: <sip:bob@home.example>|Call-ID: call1
|CSeq: 7 INVITE|Content-Length: 0|
at 0 to 1|SIP/2.0 181 Call Is Being Forwarded|Via: SIP/2.0/UDP 127.0.0.1:5071;branch=z9hG4bKc1|From: "Alice" <sip:alice@home.example>;tag=t1
|To: <sip:bob@home.example>;tag=0123456789abcdef-1|Call-ID: call1|CSeq: 7 INVITE|Contact: <sip:127.0.0.1:5060>|History-Info: <sip:bob@home.example>;index=1
|History-Info: <sip:vm@far.example;cause=302>;index=1.1|Content-Length: 0|
at 0 to 2|INVITE sip:vm@far.example;cause=302 SIP/2.0|Via: SIP/2.0/UDP 127.0.0.1:5060;branch=z9hG4bK0123456789abcdef-4|Max-Forwards: 67
|From: "Alice" <sip:alice@home.example>;tag=0123456789abcdef-3|To: <sip:vm@far.example>|Call-ID: 0123456789abcdef-2|CSeq: 1 INVITE|Contact: <sip:127.0.0.1:5060>
|P-Asserted-Identity: <sip:alice@home.example>|History-Info: <sip:bob@home.example>;index=1|History-Info: <sip:vm@far.example;cause=302>;index=1.1|Content-Length: 0|
at 200 to 1|SIP/2.0 200 OK|Via: SIP/2.0/UDP 127.0.0.1:5071;branch=z9hG4bKc1|From: "Alice" <sip:alice@home.example>;tag=t1
|To: <sip:bob@home.example>;tag=0123456789abcdef-1|Call-ID: call1|CSeq: 7 INVITE|Contact: <sip:127.0.0.1:5060>|Content-Length: 0|
at 300 to 2|ACK sip:vm@127.0.0.1:5072 SIP/2.0|Via: SIP/2.0/UDP 127.0.0.1:5060;branch=z9hG4bK0123456789abcdef-5|Max-Forwards: 67
|From: "Alice" <sip:alice@home.example>;tag=0123456789abcdef-3|To: <sip:vm@far.example>;tag=v1|Call-ID: 0123456789abcdef-2|CSeq: 1 ACK|Content-Length: 0|
at 1000 to 1|SIP/2.0 100 Trying|Via: SIP/2.0/UDP 127.0.0.1:5071;branch=z9hG4bKh|From: "Alice" <sip:alice@home.example>;tag=t1
|To: <sip:bob@home.example>;tag=0123456789abcdef-1|Call-ID: call1|CSeq: 8 INVITE|Content-Length: 0|
at 1000 to 2|INVITE sip:vm@127.0.0.1:5072 SIP/2.0|Via: SIP/2.0/UDP 127.0.0.1:5060;branch=z9hG4bK0123456789abcdef-6|Max-Forwards: 67
|From: "Alice" <sip:alice@home.example>;tag=0123456789abcdef-3|To: <sip:vm@far.example>;tag=v1|Call-ID: 0123456789abcdef-2|CSeq: 2 INVITE|Contact: <sip:127.0.0.1:5060>
|History-Info: <sip:bob@home.example>;index=1|History-Info: <sip:vm@far.example;cause=302>;index=1.1|Content-Length: 0|
~ Bob refuses what alice asks; she hangs up.
at 0 peer 1|INVITE sip:bob@home.example SIP/2.0|Via: SIP/2.0/UDP 127.0.0.1:5071;branch=z9hG4bKc1|Max-Forwards: 68|From: "Alice" <sip:alice@home.example>;tag=t1
|To: <sip:bob@home.example>|Call-ID: call1|CSeq: 7 INVITE|Contact: <sip:alice@127.0.0.1:5071>|P-Asserted-Identity: <sip:alice@home.example>|Content-Length: 0|
at 200 peer 1|SIP/2.0 200 OK|Via: SIP/2.0/UDP 127.0.0.1:5060;branch=z9hG4bK0123456789abcdef-4|From: "Alice" <sip:alice@home.example>;tag=0123456789abcdef-3
|To: <sip:bob@home.example>;tag=b1|Call-ID: 0123456789abcdef-2|CSeq: 1 INVITE|Contact: <sip:bob1@127.0.0.1:5071>|Content-Length: 0|
at 300 peer 1|ACK sip:127.0.0.1:5060 SIP/2.0|Via: SIP/2.0/UDP 127.0.0.1:5071;branch=z9hG4bKk1|Max-Forwards: 68|From: "Alice" <sip:alice@home.example>;tag=t1
|To: <sip:bob@home.example>;tag=0123456789abcdef-1|Call-ID: call1|CSeq: 7 ACK|Content-Length: 0|
at 1000 peer 1|INVITE sip:127.0.0.1:5060 SIP/2.0|Via: SIP/2.0/UDP 127.0.0.1:5071;branch=z9hG4bKh1|Max-Forwards: 68|From: "Alice" <sip:alice@home.example>;tag=t1
|To: <sip:bob@home.example>;tag=0123456789abcdef-1|Call-ID: call1|CSeq: 8 INVITE|Contact: <sip:alice@127.0.0.1:5071>|Content-Type: application/sdp|Content-Length: 123|
|v=0|o=- 1 1 IN IP4 127.0.0.1|s=-|c=IN IP4 127.0.0.1|t=0 0|m=audio 5004 RTP/AVP 8 0|a=rtpmap:8 PCMA/8000|a=sendonly
at 1010 peer 1|SIP/2.0 180 Ringing|Via: SIP/2.0/UDP 127.0.0.1:5060;branch=z9hG4bK0123456789abcdef-6|From: "Alice" <sip:alice@home.example>;tag=0123456789abcdef-3
|To: <sip:bob@home.example>;tag=b1|Call-ID: 0123456789abcdef-2|CSeq: 2 INVITE|Content-Length: 0|
at 1020 peer 1|SIP/2.0 488 Not Here|Via: SIP/2.0/UDP 127.0.0.1:5060;branch=z9hG4bK0123456789abcdef-6|From: "Alice" <sip:alice@home.example>;tag=0123456789abcdef-3
|To: <sip:bob@home.example>;tag=b1|Call-ID: 0123456789abcdef-2|CSeq: 2 INVITE|Content-Length: 0|
at 1030 peer 1|BYE sip:127.0.0.1:5060 SIP/2.0|Via: SIP/2.0/UDP 127.0.0.1:5071;branch=z9hG4bKy|Max-Forwards: 68|From: "Alice" <sip:alice@home.example>;tag=t1
|To: <sip:bob@home.example>;tag=0123456789abcdef-1|Call-ID: call1|CSeq: 9 BYE|Content-Length: 0|
~ The call goes on until then.
at 0 to 1|SIP/2.0 100 Trying|Via: SIP/2.0/UDP 127.0.0.1:5071;branch=z9hG4bKc1|From: "Alice" <sip:alice@home.example>;tag=t1|To: <sip:bob@home.example>|Call-ID: call1
|CSeq: 7 INVITE|Content-Length: 0|
at 0 to 1|INVITE sip:bob@home.example SIP/2.0|Via: SIP/2.0/UDP 127.0.0.1:5060;branch=z9hG4bK0123456789abcdef-4|Max-Forwards: 67
|From: "Alice" <sip:alice@home.example>;tag=0123456789abcdef-3|To: <sip:bob@home.example>|Call-ID: 0123456789abcdef-2|CSeq: 1 INVITE|Contact: <sip:127.0.0.1:5060>
|P-Asserted-Identity: <sip:alice@home.example>|Content-Length: 0|
at 200 to 1|SIP/2.0 200 OK|Via: SIP/2.0/UDP 127.0.0.1:5071;branch=z9hG4bKc1|From: "Alice" <sip:alice@home.example>;tag=t1
|To: <sip:bob@home.example>;tag=0123456789abcdef-1|Call-ID: call1|CSeq: 7 INVITE|Contact: <sip:127.0.0.1:5060>|Content-Length: 0|
at 300 to 1|ACK sip:bob1@127.0.0.1:5071 SIP/2.0|Via: SIP/2.0/UDP 127.0.0.1:5060;branch=z9hG4bK0123456789abcdef-5|Max-Forwards: 67
|From: "Alice" <sip:alice@home.example>;tag=0123456789abcdef-3|To: <sip:bob@home.example>;tag=b1|Call-ID: 0123456789abcdef-2|CSeq: 1 ACK|Content-Length: 0|
at 1000 to 1|SIP/2.0 100 Trying|Via: SIP/2.0/UDP 127.0.0.1:5071;branch=z9hG4bKh1|From: "Alice" <sip:alice@home.example>;tag=t1
|To: <sip:bob@home.example>;tag=0123456789abcdef-1|Call-ID: call1|CSeq: 8 INVITE|Content-Length: 0|
at 1000 to 1|INVITE sip:bob1@127.0.0.1:5071 SIP/2.0|Via: SIP/2.0/UDP 127.0.0.1:5060;branch=z9hG4bK0123456789abcdef-6|Max-Forwards: 67
|From: "Alice" <sip:alice@home.example>;tag=0123456789abcdef-3|To: <sip:bob@home.example>;tag=b1|Call-ID: 0123456789abcdef-2|CSeq: 2 INVITE|Contact: <sip:127.0.0.1:5060>
|Content-Type: application/sdp|Content-Length: 123||v=0|o=- 1 1 IN IP4 127.0.0.1|s=-|c=IN IP4 127.0.0.1|t=0 0|m=audio 5004 RTP/AVP 8 0|a=rtpmap:8 PCMA/8000|a=sendonly
at 1020 to 1|ACK sip:bob1@127.0.0.1:5071 SIP/2.0|Via: SIP/2.0/UDP 127.0.0.1:5060;branch=z9hG4bK0123456789abcdef-6|Max-Forwards: 70
|From: "Alice" <sip:alice@home.example>;tag=0123456789abcdef-3|To: <sip:bob@home.example>;tag=b1|Call-ID: 0123456789abcdef-2|CSeq: 2 ACK|Content-Length: 0|
at 1020 to 1|SIP/2.0 488 Not Here|Via: SIP/2.0/UDP 127.0.0.1:5071;branch=z9hG4bKh1|From: "Alice" <sip:alice@home.example>;tag=t1
|To: <sip:bob@home.example>;tag=0123456789abcdef-1|Call-ID: call1|CSeq: 8 INVITE|Content-Length: 0|
at 1030 to 1|SIP/2.0 200 OK|Via: SIP/2.0/UDP 127.0.0.1:5071;branch=z9hG4bKy|From: "Alice" <sip:alice@home.example>;tag=t1
|To: <sip:bob@home.example>;tag=0123456789abcdef-1|Call-ID: call1|CSeq: 9 BYE|Content-Length: 0|
at 1030 to 1|BYE sip:bob1@127.0.0.1:5071 SIP/2.0|Via: SIP/2.0/UDP 127.0.0.1:5060;branch=z9hG4bK0123456789abcdef-7|Max-Forwards: 67
|From: "Alice" <sip:alice@home.example>;tag=0123456789abcdef-3|To: <sip:bob@home.example>;tag=b1|Call-ID: 0123456789abcdef-2|CSeq: 3 BYE|Content-Length: 0|
~ He says that he knows of no call.
at 0 peer 1|INVITE sip:bob@home.example SIP/2.0|Via: SIP/2.0/UDP 127.0.0.1:5071;branch=z9hG4bKc1|Max-Forwards: 68|From: "Alice" <sip:alice@home.example>;tag=t1
|To: <sip:bob@home.example>|Call-ID: call1|CSeq: 7 INVITE|Contact: <sip:alice@127.0.0.1:5071>|P-Asserted-Identity: <sip:alice@home.example>|Content-Length: 0|
at 200 peer 1|SIP/2.0 200 OK|Via: SIP/2.0/UDP 127.0.0.1:5060;branch=z9hG4bK0123456789abcdef-4|From: "Alice" <sip:alice@home.example>;tag=0123456789abcdef-3
|To: <sip:bob@home.example>;tag=b1|Call-ID: 0123456789abcdef-2|CSeq: 1 INVITE|Contact: <sip:bob1@127.0.0.1:5071>|Content-Length: 0|
at 300 peer 1|ACK sip:127.0.0.1:5060 SIP/2.0|Via: SIP/2.0/UDP 127.0.0.1:5071;branch=z9hG4bKk1|Max-Forwards: 68|From: "Alice" <sip:alice@home.example>;tag=t1
|To: <sip:bob@home.example>;tag=0123456789abcdef-1|Call-ID: call1|CSeq: 7 ACK|Content-Length: 0|
at 1000 peer 1|INVITE sip:127.0.0.1:5060 SIP/2.0|Via: SIP/2.0/UDP 127.0.0.1:5071;branch=z9hG4bKh1|Max-Forwards: 68|From: "Alice" <sip:alice@home.example>;tag=t1
|To: <sip:bob@home.example>;tag=0123456789abcdef-1|Call-ID: call1|CSeq: 8 INVITE|Contact: <sip:alice@127.0.0.1:5071>|Content-Type: application/sdp|Content-Length: 123|
|v=0|o=- 1 1 IN IP4 127.0.0.1|s=-|c=IN IP4 127.0.0.1|t=0 0|m=audio 5004 RTP/AVP 8 0|a=rtpmap:8 PCMA/8000|a=sendonly
at 1020 peer 1|SIP/2.0 481 Gone|Via: SIP/2.0/UDP 127.0.0.1:5060;branch=z9hG4bK0123456789abcdef-6|From: "Alice" <sip:alice@home.example>;tag=0123456789abcdef-3
|To: <sip:bob@home.example>;tag=b1|Call-ID: 0123456789abcdef-2|CSeq: 2 INVITE|Content-Length: 0|
~ It goes on to alice, and both have a BYE (RFC 3261 section 12.2.1.2).
at 0 to 1|SIP/2.0 100 Trying|Via: SIP/2.0/UDP 127.0.0.1:5071;branch=z9hG4bKc1|From: "Alice" <sip:alice@home.example>;tag=t1|To: <sip:bob@home.example>|Call-ID: call1
|CSeq: 7 INVITE|Content-Length: 0|
at 0 to 1|INVITE sip:bob@home.example SIP/2.0|Via: SIP/2.0/UDP 127.0.0.1:5060;branch=z9hG4bK0123456789abcdef-4|Max-Forwards: 67
|From: "Alice" <sip:alice@home.example>;tag=0123456789abcdef-3|To: <sip:bob@home.example>|Call-ID: 0123456789abcdef-2|CSeq: 1 INVITE|Contact: <sip:127.0.0.1:5060>
|P-Asserted-Identity: <sip:alice@home.example>|Content-Length: 0|
at 200 to 1|SIP/2.0 200 OK|Via: SIP/2.0/UDP 127.0.0.1:5071;branch=z9hG4bKc1|From: "Alice" <sip:alice@home.example>;tag=t1
|To: <sip:bob@home.example>;tag=0123456789abcdef-1|Call-ID: call1|CSeq: 7 INVITE|Contact: <sip:127.0.0.1:5060>|Content-Length: 0|
at 300 to 1|ACK sip:bob1@127.0.0.1:5071 SIP/2.0|Via: SIP/2.0/UDP 127.0.0.1:5060;branch=z9hG4bK0123456789abcdef-5|Max-Forwards: 67
|From: "Alice" <sip:alice@home.example>;tag=0123456789abcdef-3|To: <sip:bob@home.example>;tag=b1|Call-ID: 0123456789abcdef-2|CSeq: 1 ACK|Content-Length: 0|
at 1000 to 1|SIP/2.0 100 Trying|Via: SIP/2.0/UDP 127.0.0.1:5071;branch=z9hG4bKh1|From: "Alice" <sip:alice@home.example>;tag=t1
|To: <sip:bob@home.example>;tag=0123456789abcdef-1|Call-ID: call1|CSeq: 8 INVITE|Content-Length: 0|
at 1000 to 1|INVITE sip:bob1@127.0.0.1:5071 SIP/2.0|Via: SIP/2.0/UDP 127.0.0.1:5060;branch=z9hG4bK0123456789abcdef-6|Max-Forwards: 67
|From: "Alice" <sip:alice@home.example>;tag=0123456789abcdef-3|To: <sip:bob@home.example>;tag=b1|Call-ID: 0123456789abcdef-2|CSeq: 2 INVITE|Contact: <sip:127.0.0.1:5060>
|Content-Type: application/sdp|Content-Length: 123||v=0|o=- 1 1 IN IP4 127.0.0.1|s=-|c=IN IP4 127.0.0.1|t=0 0|m=audio 5004 RTP/AVP 8 0|a=rtpmap:8 PCMA/8000|a=sendonly
at 1020 to 1|ACK sip:bob1@127.0.0.1:5071 SIP/2.0|Via: SIP/2.0/UDP 127.0.0.1:5060;branch=z9hG4bK0123456789abcdef-6|Max-Forwards: 70
|From: "Alice" <sip:alice@home.example>;tag=0123456789abcdef-3|To: <sip:bob@home.example>;tag=b1|Call-ID: 0123456789abcdef-2|CSeq: 2 ACK|Content-Length: 0|
at 1020 to 1|SIP/2.0 481 Gone|Via: SIP/2.0/UDP 127.0.0.1:5071;branch=z9hG4bKh1|From: "Alice" <sip:alice@home.example>;tag=t1
|To: <sip:bob@home.example>;tag=0123456789abcdef-1|Call-ID: call1|CSeq: 8 INVITE|Content-Length: 0|
at 1020 to 1|BYE sip:alice@127.0.0.1:5071 SIP/2.0|Via: SIP/2.0/UDP 127.0.0.1:5060;branch=z9hG4bK0123456789abcdef-7|Max-Forwards: 70
|From: <sip:bob@home.example>;tag=0123456789abcdef-1|To: "Alice" <sip:alice@home.example>;tag=t1|Call-ID: call1|CSeq: 1 BYE|Content-Length: 0|
at 1020 to 1|BYE sip:bob1@127.0.0.1:5071 SIP/2.0|Via: SIP/2.0/UDP 127.0.0.1:5060;branch=z9hG4bK0123456789abcdef-8|Max-Forwards: 70
|From: "Alice" <sip:alice@home.example>;tag=0123456789abcdef-3|To: <sip:bob@home.example>;tag=b1|Call-ID: 0123456789abcdef-2|CSeq: 3 BYE|Content-Length: 0|
~ He says nothing for 32,000.
at 0 peer 1|INVITE sip:bob@home.example SIP/2.0|Via: SIP/2.0/UDP 127.0.0.1:5071;branch=z9hG4bKc1|Max-Forwards: 68|From: "Alice" <sip:alice@home.example>;tag=t1
|To: <sip:bob@home.example>|Call-ID: call1|CSeq: 7 INVITE|Contact: <sip:alice@127.0.0.1:5071>|P-Asserted-Identity: <sip:alice@home.example>|Content-Length: 0|
at 200 peer 1|SIP/2.0 200 OK|Via: SIP/2.0/UDP 127.0.0.1:5060;branch=z9hG4bK0123456789abcdef-4|From: "Alice" <sip:alice@home.example>;tag=0123456789abcdef-3
|To: <sip:bob@home.example>;tag=b1|Call-ID: 0123456789abcdef-2|CSeq: 1 INVITE|Contact: <sip:bob1@127.0.0.1:5071>|Content-Length: 0|
at 300 peer 1|ACK sip:127.0.0.1:5060 SIP/2.0|Via: SIP/2.0/UDP 127.0.0.1:5071;branch=z9hG4bKk1|Max-Forwards: 68|From: "Alice" <sip:alice@home.example>;tag=t1
|To: <sip:bob@home.example>;tag=0123456789abcdef-1|Call-ID: call1|CSeq: 7 ACK|Content-Length: 0|
at 1000 peer 1|INVITE sip:127.0.0.1:5060 SIP/2.0|Via: SIP/2.0/UDP 127.0.0.1:5071;branch=z9hG4bKh1|Max-Forwards: 68|From: "Alice" <sip:alice@home.example>;tag=t1
|To: <sip:bob@home.example>;tag=0123456789abcdef-1|Call-ID: call1|CSeq: 8 INVITE|Contact: <sip:alice@127.0.0.1:5071>|Content-Type: application/sdp|Content-Length: 123|
|v=0|o=- 1 1 IN IP4 127.0.0.1|s=-|c=IN IP4 127.0.0.1|t=0 0|m=audio 5004 RTP/AVP 8 0|a=rtpmap:8 PCMA/8000|a=sendonly
at 33000 quiet
~ As if he had answered 408.
at 0 to 1|SIP/2.0 100 Trying|Via: SIP/2.0/UDP 127.0.0.1:5071;branch=z9hG4bKc1|From: "Alice" <sip:alice@home.example>;tag=t1|To: <sip:bob@home.example>|Call-ID: call1
|CSeq: 7 INVITE|Content-Length: 0|
at 0 to 1|INVITE sip:bob@home.example SIP/2.0|Via: SIP/2.0/UDP 127.0.0.1:5060;branch=z9hG4bK0123456789abcdef-4|Max-Forwards: 67
|From: "Alice" <sip:alice@home.example>;tag=0123456789abcdef-3|To: <sip:bob@home.example>|Call-ID: 0123456789abcdef-2|CSeq: 1 INVITE|Contact: <sip:127.0.0.1:5060>
|P-Asserted-Identity: <sip:alice@home.example>|Content-Length: 0|
at 200 to 1|SIP/2.0 200 OK|Via: SIP/2.0/UDP 127.0.0.1:5071;branch=z9hG4bKc1|From: "Alice" <sip:alice@home.example>;tag=t1
|To: <sip:bob@home.example>;tag=0123456789abcdef-1|Call-ID: call1|CSeq: 7 INVITE|Contact: <sip:127.0.0.1:5060>|Content-Length: 0|
at 300 to 1|ACK sip:bob1@127.0.0.1:5071 SIP/2.0|Via: SIP/2.0/UDP 127.0.0.1:5060;branch=z9hG4bK0123456789abcdef-5|Max-Forwards: 67
|From: "Alice" <sip:alice@home.example>;tag=0123456789abcdef-3|To: <sip:bob@home.example>;tag=b1|Call-ID: 0123456789abcdef-2|CSeq: 1 ACK|Content-Length: 0|
at 1000 to 1|SIP/2.0 100 Trying|Via: SIP/2.0/UDP 127.0.0.1:5071;branch=z9hG4bKh1|From: "Alice" <sip:alice@home.example>;tag=t1
|To: <sip:bob@home.example>;tag=0123456789abcdef-1|Call-ID: call1|CSeq: 8 INVITE|Content-Length: 0|
at 1000 to 1|INVITE sip:bob1@127.0.0.1:5071 SIP/2.0|Via: SIP/2.0/UDP 127.0.0.1:5060;branch=z9hG4bK0123456789abcdef-6|Max-Forwards: 67
|From: "Alice" <sip:alice@home.example>;tag=0123456789abcdef-3|To: <sip:bob@home.example>;tag=b1|Call-ID: 0123456789abcdef-2|CSeq: 2 INVITE|Contact: <sip:127.0.0.1:5060>
|Content-Type: application/sdp|Content-Length: 123||v=0|o=- 1 1 IN IP4 127.0.0.1|s=-|c=IN IP4 127.0.0.1|t=0 0|m=audio 5004 RTP/AVP 8 0|a=rtpmap:8 PCMA/8000|a=sendonly
at 1500 to 1|INVITE sip:bob1@127.0.0.1:5071 SIP/2.0|Via: SIP/2.0/UDP 127.0.0.1:5060;branch=z9hG4bK0123456789abcdef-6|Max-Forwards: 67
|From: "Alice" <sip:alice@home.example>;tag=0123456789abcdef-3|To: <sip:bob@home.example>;tag=b1|Call-ID: 0123456789abcdef-2|CSeq: 2 INVITE|Contact: <sip:127.0.0.1:5060>
|Content-Type: application/sdp|Content-Length: 123||v=0|o=- 1 1 IN IP4 127.0.0.1|s=-|c=IN IP4 127.0.0.1|t=0 0|m=audio 5004 RTP/AVP 8 0|a=rtpmap:8 PCMA/8000|a=sendonly
at 2500 to 1|INVITE sip:bob1@127.0.0.1:5071 SIP/2.0|Via: SIP/2.0/UDP 127.0.0.1:5060;branch=z9hG4bK0123456789abcdef-6|Max-Forwards: 67
|From: "Alice" <sip:alice@home.example>;tag=0123456789abcdef-3|To: <sip:bob@home.example>;tag=b1|Call-ID: 0123456789abcdef-2|CSeq: 2 INVITE|Contact: <sip:127.0.0.1:5060>
|Content-Type: application/sdp|Content-Length: 123||v=0|o=- 1 1 IN IP4 127.0.0.1|s=-|c=IN IP4 127.0.0.1|t=0 0|m=audio 5004 RTP/AVP 8 0|a=rtpmap:8 PCMA/8000|a=sendonly
at 4500 to 1|INVITE sip:bob1@127.0.0.1:5071 SIP/2.0|Via: SIP/2.0/UDP 127.0.0.1:5060;branch=z9hG4bK0123456789abcdef-6|Max-Forwards: 67
|From: "Alice" <sip:alice@home.example>;tag=0123456789abcdef-3|To: <sip:bob@home.example>;tag=b1|Call-ID: 0123456789abcdef-2|CSeq: 2 INVITE|Contact: <sip:127.0.0.1:5060>
|Content-Type: application/sdp|Content-Length: 123||v=0|o=- 1 1 IN IP4 127.0.0.1|s=-|c=IN IP4 127.0.0.1|t=0 0|m=audio 5004 RTP/AVP 8 0|a=rtpmap:8 PCMA/8000|a=sendonly
at 8500 to 1|INVITE sip:bob1@127.0.0.1:5071 SIP/2.0|Via: SIP/2.0/UDP 127.0.0.1:5060;branch=z9hG4bK0123456789abcdef-6|Max-Forwards: 67
|From: "Alice" <sip:alice@home.example>;tag=0123456789abcdef-3|To: <sip:bob@home.example>;tag=b1|Call-ID: 0123456789abcdef-2|CSeq: 2 INVITE|Contact: <sip:127.0.0.1:5060>
|Content-Type: application/sdp|Content-Length: 123||v=0|o=- 1 1 IN IP4 127.0.0.1|s=-|c=IN IP4 127.0.0.1|t=0 0|m=audio 5004 RTP/AVP 8 0|a=rtpmap:8 PCMA/8000|a=sendonly
at 16500 to 1|INVITE sip:bob1@127.0.0.1:5071 SIP/2.0|Via: SIP/2.0/UDP 127.0.0.1:5060;branch=z9hG4bK0123456789abcdef-6|Max-Forwards: 67
|From: "Alice" <sip:alice@home.example>;tag=0123456789abcdef-3|To: <sip:bob@home.example>;tag=b1|Call-ID: 0123456789abcdef-2|CSeq: 2 INVITE|Contact: <sip:127.0.0.1:5060>
|Content-Type: application/sdp|Content-Length: 123||v=0|o=- 1 1 IN IP4 127.0.0.1|s=-|c=IN IP4 127.0.0.1|t=0 0|m=audio 5004 RTP/AVP 8 0|a=rtpmap:8 PCMA/8000|a=sendonly
at 32500 to 1|INVITE sip:bob1@127.0.0.1:5071 SIP/2.0|Via: SIP/2.0/UDP 127.0.0.1:5060;branch=z9hG4bK0123456789abcdef-6|Max-Forwards: 67
|From: "Alice" <sip:alice@home.example>;tag=0123456789abcdef-3|To: <sip:bob@home.example>;tag=b1|Call-ID: 0123456789abcdef-2|CSeq: 2 INVITE|Contact: <sip:127.0.0.1:5060>
|Content-Type: application/sdp|Content-Length: 123||v=0|o=- 1 1 IN IP4 127.0.0.1|s=-|c=IN IP4 127.0.0.1|t=0 0|m=audio 5004 RTP/AVP 8 0|a=rtpmap:8 PCMA/8000|a=sendonly
at 33000 to 1|SIP/2.0 408 Request Timeout|Via: SIP/2.0/UDP 127.0.0.1:5071;branch=z9hG4bKh1|From: "Alice" <sip:alice@home.example>;tag=t1
|To: <sip:bob@home.example>;tag=0123456789abcdef-1|Call-ID: call1|CSeq: 8 INVITE|Content-Length: 0|
at 33000 to 1|BYE sip:alice@127.0.0.1:5071 SIP/2.0|Via: SIP/2.0/UDP 127.0.0.1:5060;branch=z9hG4bK0123456789abcdef-7|Max-Forwards: 70
|From: <sip:bob@home.example>;tag=0123456789abcdef-1|To: "Alice" <sip:alice@home.example>;tag=t1|Call-ID: call1|CSeq: 1 BYE|Content-Length: 0|
at 33000 to 1|BYE sip:bob1@127.0.0.1:5071 SIP/2.0|Via: SIP/2.0/UDP 127.0.0.1:5060;branch=z9hG4bK0123456789abcdef-8|Max-Forwards: 70
|From: "Alice" <sip:alice@home.example>;tag=0123456789abcdef-3|To: <sip:bob@home.example>;tag=b1|Call-ID: 0123456789abcdef-2|CSeq: 3 BYE|Content-Length: 0|
~ She cancels when he rang.
at 0 peer 1|INVITE sip:bob@home.example SIP/2.0|Via: SIP/2.0/UDP 127.0.0.1:5071;branch=z9hG4bKc1|Max-Forwards: 68|From: "Alice" <sip:alice@home.example>;tag=t1
|To: <sip:bob@home.example>|Call-ID: call1|CSeq: 7 INVITE|Contact: <sip:alice@127.0.0.1:5071>|P-Asserted-Identity: <sip:alice@home.example>|Content-Length: 0|
at 200 peer 1|SIP/2.0 200 OK|Via: SIP/2.0/UDP 127.0.0.1:5060;branch=z9hG4bK0123456789abcdef-4|From: "Alice" <sip:alice@home.example>;tag=0123456789abcdef-3
|To: <sip:bob@home.example>;tag=b1|Call-ID: 0123456789abcdef-2|CSeq: 1 INVITE|Contact: <sip:bob1@127.0.0.1:5071>|Content-Length: 0|
at 300 peer 1|ACK sip:127.0.0.1:5060 SIP/2.0|Via: SIP/2.0/UDP 127.0.0.1:5071;branch=z9hG4bKk1|Max-Forwards: 68|From: "Alice" <sip:alice@home.example>;tag=t1
|To: <sip:bob@home.example>;tag=0123456789abcdef-1|Call-ID: call1|CSeq: 7 ACK|Content-Length: 0|
at 1000 peer 1|INVITE sip:127.0.0.1:5060 SIP/2.0|Via: SIP/2.0/UDP 127.0.0.1:5071;branch=z9hG4bKh1|Max-Forwards: 68|From: "Alice" <sip:alice@home.example>;tag=t1
|To: <sip:bob@home.example>;tag=0123456789abcdef-1|Call-ID: call1|CSeq: 8 INVITE|Contact: <sip:alice@127.0.0.1:5071>|Content-Type: application/sdp|Content-Length: 123|
|v=0|o=- 1 1 IN IP4 127.0.0.1|s=-|c=IN IP4 127.0.0.1|t=0 0|m=audio 5004 RTP/AVP 8 0|a=rtpmap:8 PCMA/8000|a=sendonly
at 1010 peer 1|SIP/2.0 180 Ringing|Via: SIP/2.0/UDP 127.0.0.1:5060;branch=z9hG4bK0123456789abcdef-6|From: "Alice" <sip:alice@home.example>;tag=0123456789abcdef-3
|To: <sip:bob@home.example>;tag=b1|Call-ID: 0123456789abcdef-2|CSeq: 2 INVITE|Content-Length: 0|
at 1020 peer 1|CANCEL sip:bob@home.example SIP/2.0|Via: SIP/2.0/UDP 127.0.0.1:5071;branch=z9hG4bKh1|Max-Forwards: 68|From: "Alice" <sip:alice@home.example>;tag=t1
|To: <sip:bob@home.example>;tag=0123456789abcdef-1|Call-ID: call1|CSeq: 8 CANCEL|Content-Length: 0|
at 1030 peer 1|SIP/2.0 487 Stopped|Via: SIP/2.0/UDP 127.0.0.1:5060;branch=z9hG4bK0123456789abcdef-6|From: "Alice" <sip:alice@home.example>;tag=0123456789abcdef-3
|To: <sip:bob@home.example>;tag=b1|Call-ID: 0123456789abcdef-2|CSeq: 2 INVITE|Content-Length: 0|
~ CANCEL to bob; his 487 goes on to her, and the call stands.
at 0 to 1|SIP/2.0 100 Trying|Via: SIP/2.0/UDP 127.0.0.1:5071;branch=z9hG4bKc1|From: "Alice" <sip:alice@home.example>;tag=t1|To: <sip:bob@home.example>|Call-ID: call1
|CSeq: 7 INVITE|Content-Length: 0|
at 0 to 1|INVITE sip:bob@home.example SIP/2.0|Via: SIP/2.0/UDP 127.0.0.1:5060;branch=z9hG4bK0123456789abcdef-4|Max-Forwards: 67
|From: "Alice" <sip:alice@home.example>;tag=0123456789abcdef-3|To: <sip:bob@home.example>|Call-ID: 0123456789abcdef-2|CSeq: 1 INVITE|Contact: <sip:127.0.0.1:5060>
|P-Asserted-Identity: <sip:alice@home.example>|Content-Length: 0|
at 200 to 1|SIP/2.0 200 OK|Via: SIP/2.0/UDP 127.0.0.1:5071;branch=z9hG4bKc1|From: "Alice" <sip:alice@home.example>;tag=t1
|To: <sip:bob@home.example>;tag=0123456789abcdef-1|Call-ID: call1|CSeq: 7 INVITE|Contact: <sip:127.0.0.1:5060>|Content-Length: 0|
at 300 to 1|ACK sip:bob1@127.0.0.1:5071 SIP/2.0|Via: SIP/2.0/UDP 127.0.0.1:5060;branch=z9hG4bK0123456789abcdef-5|Max-Forwards: 67
|From: "Alice" <sip:alice@home.example>;tag=0123456789abcdef-3|To: <sip:bob@home.example>;tag=b1|Call-ID: 0123456789abcdef-2|CSeq: 1 ACK|Content-Length: 0|
at 1000 to 1|SIP/2.0 100 Trying|Via: SIP/2.0/UDP 127.0.0.1:5071;branch=z9hG4bKh1|From: "Alice" <sip:alice@home.example>;tag=t1
|To: <sip:bob@home.example>;tag=0123456789abcdef-1|Call-ID: call1|CSeq: 8 INVITE|Content-Length: 0|
at 1000 to 1|INVITE sip:bob1@127.0.0.1:5071 SIP/2.0|Via: SIP/2.0/UDP 127.0.0.1:5060;branch=z9hG4bK0123456789abcdef-6|Max-Forwards: 67
|From: "Alice" <sip:alice@home.example>;tag=0123456789abcdef-3|To: <sip:bob@home.example>;tag=b1|Call-ID: 0123456789abcdef-2|CSeq: 2 INVITE|Contact: <sip:127.0.0.1:5060>
|Content-Type: application/sdp|Content-Length: 123||v=0|o=- 1 1 IN IP4 127.0.0.1|s=-|c=IN IP4 127.0.0.1|t=0 0|m=audio 5004 RTP/AVP 8 0|a=rtpmap:8 PCMA/8000|a=sendonly
at 1020 to 1|SIP/2.0 200 OK|Via: SIP/2.0/UDP 127.0.0.1:5071;branch=z9hG4bKh1|From: "Alice" <sip:alice@home.example>;tag=t1
|To: <sip:bob@home.example>;tag=0123456789abcdef-1|Call-ID: call1|CSeq: 8 CANCEL|Content-Length: 0|
at 1020 to 1|CANCEL sip:bob1@127.0.0.1:5071 SIP/2.0|Via: SIP/2.0/UDP 127.0.0.1:5060;branch=z9hG4bK0123456789abcdef-6|Max-Forwards: 70
|From: "Alice" <sip:alice@home.example>;tag=0123456789abcdef-3|To: <sip:bob@home.example>;tag=b1|Call-ID: 0123456789abcdef-2|CSeq: 2 CANCEL|Content-Length: 0|
at 1030 to 1|ACK sip:bob1@127.0.0.1:5071 SIP/2.0|Via: SIP/2.0/UDP 127.0.0.1:5060;branch=z9hG4bK0123456789abcdef-6|Max-Forwards: 70
|From: "Alice" <sip:alice@home.example>;tag=0123456789abcdef-3|To: <sip:bob@home.example>;tag=b1|Call-ID: 0123456789abcdef-2|CSeq: 2 ACK|Content-Length: 0|
at 1030 to 1|SIP/2.0 487 Stopped|Via: SIP/2.0/UDP 127.0.0.1:5071;branch=z9hG4bKh1|From: "Alice" <sip:alice@home.example>;tag=t1
|To: <sip:bob@home.example>;tag=0123456789abcdef-1|Call-ID: call1|CSeq: 8 INVITE|Content-Length: 0|
~ She cancels before anything came of him, and then he rings.
at 0 peer 1|INVITE sip:bob@home.example SIP/2.0|Via: SIP/2.0/UDP 127.0.0.1:5071;branch=z9hG4bKc1|Max-Forwards: 68|From: "Alice" <sip:alice@home.example>;tag=t1
|To: <sip:bob@home.example>|Call-ID: call1|CSeq: 7 INVITE|Contact: <sip:alice@127.0.0.1:5071>|P-Asserted-Identity: <sip:alice@home.example>|Content-Length: 0|
at 200 peer 1|SIP/2.0 200 OK|Via: SIP/2.0/UDP 127.0.0.1:5060;branch=z9hG4bK0123456789abcdef-4|From: "Alice" <sip:alice@home.example>;tag=0123456789abcdef-3
|To: <sip:bob@home.example>;tag=b1|Call-ID: 0123456789abcdef-2|CSeq: 1 INVITE|Contact: <sip:bob1@127.0.0.1:5071>|Content-Length: 0|
at 300 peer 1|ACK sip:127.0.0.1:5060 SIP/2.0|Via: SIP/2.0/UDP 127.0.0.1:5071;branch=z9hG4bKk1|Max-Forwards: 68|From: "Alice" <sip:alice@home.example>;tag=t1
|To: <sip:bob@home.example>;tag=0123456789abcdef-1|Call-ID: call1|CSeq: 7 ACK|Content-Length: 0|
at 1000 peer 1|INVITE sip:127.0.0.1:5060 SIP/2.0|Via: SIP/2.0/UDP 127.0.0.1:5071;branch=z9hG4bKh1|Max-Forwards: 68|From: "Alice" <sip:alice@home.example>;tag=t1
|To: <sip:bob@home.example>;tag=0123456789abcdef-1|Call-ID: call1|CSeq: 8 INVITE|Contact: <sip:alice@127.0.0.1:5071>|Content-Type: application/sdp|Content-Length: 123|
|v=0|o=- 1 1 IN IP4 127.0.0.1|s=-|c=IN IP4 127.0.0.1|t=0 0|m=audio 5004 RTP/AVP 8 0|a=rtpmap:8 PCMA/8000|a=sendonly
at 1010 peer 1|CANCEL sip:bob@home.example SIP/2.0|Via: SIP/2.0/UDP 127.0.0.1:5071;branch=z9hG4bKh1|Max-Forwards: 68|From: "Alice" <sip:alice@home.example>;tag=t1
|To: <sip:bob@home.example>;tag=0123456789abcdef-1|Call-ID: call1|CSeq: 8 CANCEL|Content-Length: 0|
at 1020 peer 1|SIP/2.0 180 Ringing|Via: SIP/2.0/UDP 127.0.0.1:5060;branch=z9hG4bK0123456789abcdef-6|From: "Alice" <sip:alice@home.example>;tag=0123456789abcdef-3
|To: <sip:bob@home.example>;tag=b1|Call-ID: 0123456789abcdef-2|CSeq: 2 INVITE|Content-Length: 0|
~ The CANCEL goes then.
at 0 to 1|SIP/2.0 100 Trying|Via: SIP/2.0/UDP 127.0.0.1:5071;branch=z9hG4bKc1|From: "Alice" <sip:alice@home.example>;tag=t1|To: <sip:bob@home.example>|Call-ID: call1
|CSeq: 7 INVITE|Content-Length: 0|
at 0 to 1|INVITE sip:bob@home.example SIP/2.0|Via: SIP/2.0/UDP 127.0.0.1:5060;branch=z9hG4bK0123456789abcdef-4|Max-Forwards: 67
|From: "Alice" <sip:alice@home.example>;tag=0123456789abcdef-3|To: <sip:bob@home.example>|Call-ID: 0123456789abcdef-2|CSeq: 1 INVITE|Contact: <sip:127.0.0.1:5060>
|P-Asserted-Identity: <sip:alice@home.example>|Content-Length: 0|
at 200 to 1|SIP/2.0 200 OK|Via: SIP/2.0/UDP 127.0.0.1:5071;branch=z9hG4bKc1|From: "Alice" <sip:alice@home.example>;tag=t1
|To: <sip:bob@home.example>;tag=0123456789abcdef-1|Call-ID: call1|CSeq: 7 INVITE|Contact: <sip:127.0.0.1:5060>|Content-Length: 0|
at 300 to 1|ACK sip:bob1@127.0.0.1:5071 SIP/2.0|Via: SIP/2.0/UDP 127.0.0.1:5060;branch=z9hG4bK0123456789abcdef-5|Max-Forwards: 67
|From: "Alice" <sip:alice@home.example>;tag=0123456789abcdef-3|To: <sip:bob@home.example>;tag=b1|Call-ID: 0123456789abcdef-2|CSeq: 1 ACK|Content-Length: 0|
at 1000 to 1|SIP/2.0 100 Trying|Via: SIP/2.0/UDP 127.0.0.1:5071;branch=z9hG4bKh1|From: "Alice" <sip:alice@home.example>;tag=t1
|To: <sip:bob@home.example>;tag=0123456789abcdef-1|Call-ID: call1|CSeq: 8 INVITE|Content-Length: 0|
at 1000 to 1|INVITE sip:bob1@127.0.0.1:5071 SIP/2.0|Via: SIP/2.0/UDP 127.0.0.1:5060;branch=z9hG4bK0123456789abcdef-6|Max-Forwards: 67
|From: "Alice" <sip:alice@home.example>;tag=0123456789abcdef-3|To: <sip:bob@home.example>;tag=b1|Call-ID: 0123456789abcdef-2|CSeq: 2 INVITE|Contact: <sip:127.0.0.1:5060>
|Content-Type: application/sdp|Content-Length: 123||v=0|o=- 1 1 IN IP4 127.0.0.1|s=-|c=IN IP4 127.0.0.1|t=0 0|m=audio 5004 RTP/AVP 8 0|a=rtpmap:8 PCMA/8000|a=sendonly
at 1010 to 1|SIP/2.0 200 OK|Via: SIP/2.0/UDP 127.0.0.1:5071;branch=z9hG4bKh1|From: "Alice" <sip:alice@home.example>;tag=t1
|To: <sip:bob@home.example>;tag=0123456789abcdef-1|Call-ID: call1|CSeq: 8 CANCEL|Content-Length: 0|
at 1020 to 1|CANCEL sip:bob1@127.0.0.1:5071 SIP/2.0|Via: SIP/2.0/UDP 127.0.0.1:5060;branch=z9hG4bK0123456789abcdef-6|Max-Forwards: 70
|From: "Alice" <sip:alice@home.example>;tag=0123456789abcdef-3|To: <sip:bob@home.example>;tag=b1|Call-ID: 0123456789abcdef-2|CSeq: 2 CANCEL|Content-Length: 0|
~ She hangs up while she waits for him; then his 200 comes.
at 0 peer 1|INVITE sip:bob@home.example SIP/2.0|Via: SIP/2.0/UDP 127.0.0.1:5071;branch=z9hG4bKc1|Max-Forwards: 68|From: "Alice" <sip:alice@home.example>;tag=t1
|To: <sip:bob@home.example>|Call-ID: call1|CSeq: 7 INVITE|Contact: <sip:alice@127.0.0.1:5071>|P-Asserted-Identity: <sip:alice@home.example>|Content-Length: 0|
at 200 peer 1|SIP/2.0 200 OK|Via: SIP/2.0/UDP 127.0.0.1:5060;branch=z9hG4bK0123456789abcdef-4|From: "Alice" <sip:alice@home.example>;tag=0123456789abcdef-3
|To: <sip:bob@home.example>;tag=b1|Call-ID: 0123456789abcdef-2|CSeq: 1 INVITE|Contact: <sip:bob1@127.0.0.1:5071>|Content-Length: 0|
at 300 peer 1|ACK sip:127.0.0.1:5060 SIP/2.0|Via: SIP/2.0/UDP 127.0.0.1:5071;branch=z9hG4bKk1|Max-Forwards: 68|From: "Alice" <sip:alice@home.example>;tag=t1
|To: <sip:bob@home.example>;tag=0123456789abcdef-1|Call-ID: call1|CSeq: 7 ACK|Content-Length: 0|
at 1000 peer 1|INVITE sip:127.0.0.1:5060 SIP/2.0|Via: SIP/2.0/UDP 127.0.0.1:5071;branch=z9hG4bKh1|Max-Forwards: 68|From: "Alice" <sip:alice@home.example>;tag=t1
|To: <sip:bob@home.example>;tag=0123456789abcdef-1|Call-ID: call1|CSeq: 8 INVITE|Contact: <sip:alice@127.0.0.1:5071>|Content-Type: application/sdp|Content-Length: 123|
|v=0|o=- 1 1 IN IP4 127.0.0.1|s=-|c=IN IP4 127.0.0.1|t=0 0|m=audio 5004 RTP/AVP 8 0|a=rtpmap:8 PCMA/8000|a=sendonly
at 1010 peer 1|BYE sip:127.0.0.1:5060 SIP/2.0|Via: SIP/2.0/UDP 127.0.0.1:5071;branch=z9hG4bKy|Max-Forwards: 68|From: "Alice" <sip:alice@home.example>;tag=t1
|To: <sip:bob@home.example>;tag=0123456789abcdef-1|Call-ID: call1|CSeq: 9 BYE|Content-Length: 0|
at 1020 peer 1|SIP/2.0 200 OK|Via: SIP/2.0/UDP 127.0.0.1:5060;branch=z9hG4bK0123456789abcdef-6|From: "Alice" <sip:alice@home.example>;tag=0123456789abcdef-3
|To: <sip:bob@home.example>;tag=b1|Call-ID: 0123456789abcdef-2|CSeq: 2 INVITE|Content-Length: 0|
~ 200, 487, and BYE to bob; then an ACK alone.
at 0 to 1|SIP/2.0 100 Trying|Via: SIP/2.0/UDP 127.0.0.1:5071;branch=z9hG4bKc1|From: "Alice" <sip:alice@home.example>;tag=t1|To: <sip:bob@home.example>|Call-ID: call1
|CSeq: 7 INVITE|Content-Length: 0|
at 0 to 1|INVITE sip:bob@home.example SIP/2.0|Via: SIP/2.0/UDP 127.0.0.1:5060;branch=z9hG4bK0123456789abcdef-4|Max-Forwards: 67
|From: "Alice" <sip:alice@home.example>;tag=0123456789abcdef-3|To: <sip:bob@home.example>|Call-ID: 0123456789abcdef-2|CSeq: 1 INVITE|Contact: <sip:127.0.0.1:5060>
|P-Asserted-Identity: <sip:alice@home.example>|Content-Length: 0|
at 200 to 1|SIP/2.0 200 OK|Via: SIP/2.0/UDP 127.0.0.1:5071;branch=z9hG4bKc1|From: "Alice" <sip:alice@home.example>;tag=t1
|To: <sip:bob@home.example>;tag=0123456789abcdef-1|Call-ID: call1|CSeq: 7 INVITE|Contact: <sip:127.0.0.1:5060>|Content-Length: 0|
at 300 to 1|ACK sip:bob1@127.0.0.1:5071 SIP/2.0|Via: SIP/2.0/UDP 127.0.0.1:5060;branch=z9hG4bK0123456789abcdef-5|Max-Forwards: 67
|From: "Alice" <sip:alice@home.example>;tag=0123456789abcdef-3|To: <sip:bob@home.example>;tag=b1|Call-ID: 0123456789abcdef-2|CSeq: 1 ACK|Content-Length: 0|
at 1000 to 1|SIP/2.0 100 Trying|Via: SIP/2.0/UDP 127.0.0.1:5071;branch=z9hG4bKh1|From: "Alice" <sip:alice@home.example>;tag=t1
|To: <sip:bob@home.example>;tag=0123456789abcdef-1|Call-ID: call1|CSeq: 8 INVITE|Content-Length: 0|
at 1000 to 1|INVITE sip:bob1@127.0.0.1:5071 SIP/2.0|Via: SIP/2.0/UDP 127.0.0.1:5060;branch=z9hG4bK0123456789abcdef-6|Max-Forwards: 67
|From: "Alice" <sip:alice@home.example>;tag=0123456789abcdef-3|To: <sip:bob@home.example>;tag=b1|Call-ID: 0123456789abcdef-2|CSeq: 2 INVITE|Contact: <sip:127.0.0.1:5060>
|Content-Type: application/sdp|Content-Length: 123||v=0|o=- 1 1 IN IP4 127.0.0.1|s=-|c=IN IP4 127.0.0.1|t=0 0|m=audio 5004 RTP/AVP 8 0|a=rtpmap:8 PCMA/8000|a=sendonly
at 1010 to 1|SIP/2.0 200 OK|Via: SIP/2.0/UDP 127.0.0.1:5071;branch=z9hG4bKy|From: "Alice" <sip:alice@home.example>;tag=t1
|To: <sip:bob@home.example>;tag=0123456789abcdef-1|Call-ID: call1|CSeq: 9 BYE|Content-Length: 0|
at 1010 to 1|SIP/2.0 487 Request Terminated|Via: SIP/2.0/UDP 127.0.0.1:5071;branch=z9hG4bKh1|From: "Alice" <sip:alice@home.example>;tag=t1
|To: <sip:bob@home.example>;tag=0123456789abcdef-1|Call-ID: call1|CSeq: 8 INVITE|Content-Length: 0|
at 1010 to 1|BYE sip:bob1@127.0.0.1:5071 SIP/2.0|Via: SIP/2.0/UDP 127.0.0.1:5060;branch=z9hG4bK0123456789abcdef-7|Max-Forwards: 70
|From: "Alice" <sip:alice@home.example>;tag=0123456789abcdef-3|To: <sip:bob@home.example>;tag=b1|Call-ID: 0123456789abcdef-2|CSeq: 3 BYE|Content-Length: 0|
at 1020 to 1|ACK sip:bob1@127.0.0.1:5071 SIP/2.0|Via: SIP/2.0/UDP 127.0.0.1:5060;branch=z9hG4bK0123456789abcdef-8|Max-Forwards: 70
|From: "Alice" <sip:alice@home.example>;tag=0123456789abcdef-3|To: <sip:bob@home.example>;tag=b1|Call-ID: 0123456789abcdef-2|CSeq: 2 ACK|Content-Length: 0|
~ He hangs up in place of an answer, and then rings.
at 0 peer 1|INVITE sip:bob@home.example SIP/2.0|Via: SIP/2.0/UDP 127.0.0.1:5071;branch=z9hG4bKc1|Max-Forwards: 68|From: "Alice" <sip:alice@home.example>;tag=t1
|To: <sip:bob@home.example>|Call-ID: call1|CSeq: 7 INVITE|Contact: <sip:alice@127.0.0.1:5071>|P-Asserted-Identity: <sip:alice@home.example>|Content-Length: 0|
at 200 peer 1|SIP/2.0 200 OK|Via: SIP/2.0/UDP 127.0.0.1:5060;branch=z9hG4bK0123456789abcdef-4|From: "Alice" <sip:alice@home.example>;tag=0123456789abcdef-3
|To: <sip:bob@home.example>;tag=b1|Call-ID: 0123456789abcdef-2|CSeq: 1 INVITE|Contact: <sip:bob1@127.0.0.1:5071>|Content-Length: 0|
at 300 peer 1|ACK sip:127.0.0.1:5060 SIP/2.0|Via: SIP/2.0/UDP 127.0.0.1:5071;branch=z9hG4bKk1|Max-Forwards: 68|From: "Alice" <sip:alice@home.example>;tag=t1
|To: <sip:bob@home.example>;tag=0123456789abcdef-1|Call-ID: call1|CSeq: 7 ACK|Content-Length: 0|
at 1000 peer 1|INVITE sip:127.0.0.1:5060 SIP/2.0|Via: SIP/2.0/UDP 127.0.0.1:5071;branch=z9hG4bKh1|Max-Forwards: 68|From: "Alice" <sip:alice@home.example>;tag=t1
|To: <sip:bob@home.example>;tag=0123456789abcdef-1|Call-ID: call1|CSeq: 8 INVITE|Contact: <sip:alice@127.0.0.1:5071>|Content-Type: application/sdp|Content-Length: 123|
|v=0|o=- 1 1 IN IP4 127.0.0.1|s=-|c=IN IP4 127.0.0.1|t=0 0|m=audio 5004 RTP/AVP 8 0|a=rtpmap:8 PCMA/8000|a=sendonly
at 1010 peer 1|BYE sip:127.0.0.1:5060 SIP/2.0|Via: SIP/2.0/UDP 127.0.0.1:5071;branch=z9hG4bKg|Max-Forwards: 68|From: <sip:bob@home.example>;tag=b1
|To: "Alice" <sip:alice@home.example>;tag=0123456789abcdef-3|Call-ID: 0123456789abcdef-2|CSeq: 1 BYE|Content-Length: 0|
at 1020 peer 1|SIP/2.0 180 Ringing|Via: SIP/2.0/UDP 127.0.0.1:5060;branch=z9hG4bK0123456789abcdef-6|From: "Alice" <sip:alice@home.example>;tag=0123456789abcdef-3
|To: <sip:bob@home.example>;tag=b1|Call-ID: 0123456789abcdef-2|CSeq: 2 INVITE|Content-Length: 0|
~ 200 to bob, 487 and BYE to alice; then a CANCEL.
at 0 to 1|SIP/2.0 100 Trying|Via: SIP/2.0/UDP 127.0.0.1:5071;branch=z9hG4bKc1|From: "Alice" <sip:alice@home.example>;tag=t1|To: <sip:bob@home.example>|Call-ID: call1
|CSeq: 7 INVITE|Content-Length: 0|
at 0 to 1|INVITE sip:bob@home.example SIP/2.0|Via: SIP/2.0/UDP 127.0.0.1:5060;branch=z9hG4bK0123456789abcdef-4|Max-Forwards: 67
|From: "Alice" <sip:alice@home.example>;tag=0123456789abcdef-3|To: <sip:bob@home.example>|Call-ID: 0123456789abcdef-2|CSeq: 1 INVITE|Contact: <sip:127.0.0.1:5060>
|P-Asserted-Identity: <sip:alice@home.example>|Content-Length: 0|
at 200 to 1|SIP/2.0 200 OK|Via: SIP/2.0/UDP 127.0.0.1:5071;branch=z9hG4bKc1|From: "Alice" <sip:alice@home.example>;tag=t1
|To: <sip:bob@home.example>;tag=0123456789abcdef-1|Call-ID: call1|CSeq: 7 INVITE|Contact: <sip:127.0.0.1:5060>|Content-Length: 0|
at 300 to 1|ACK sip:bob1@127.0.0.1:5071 SIP/2.0|Via: SIP/2.0/UDP 127.0.0.1:5060;branch=z9hG4bK0123456789abcdef-5|Max-Forwards: 67
|From: "Alice" <sip:alice@home.example>;tag=0123456789abcdef-3|To: <sip:bob@home.example>;tag=b1|Call-ID: 0123456789abcdef-2|CSeq: 1 ACK|Content-Length: 0|
at 1000 to 1|SIP/2.0 100 Trying|Via: SIP/2.0/UDP 127.0.0.1:5071;branch=z9hG4bKh1|From: "Alice" <sip:alice@home.example>;tag=t1
|To: <sip:bob@home.example>;tag=0123456789abcdef-1|Call-ID: call1|CSeq: 8 INVITE|Content-Length: 0|
at 1000 to 1|INVITE sip:bob1@127.0.0.1:5071 SIP/2.0|Via: SIP/2.0/UDP 127.0.0.1:5060;branch=z9hG4bK0123456789abcdef-6|Max-Forwards: 67
|From: "Alice" <sip:alice@home.example>;tag=0123456789abcdef-3|To: <sip:bob@home.example>;tag=b1|Call-ID: 0123456789abcdef-2|CSeq: 2 INVITE|Contact: <sip:127.0.0.1:5060>
|Content-Type: application/sdp|Content-Length: 123||v=0|o=- 1 1 IN IP4 127.0.0.1|s=-|c=IN IP4 127.0.0.1|t=0 0|m=audio 5004 RTP/AVP 8 0|a=rtpmap:8 PCMA/8000|a=sendonly
at 1010 to 1|SIP/2.0 200 OK|Via: SIP/2.0/UDP 127.0.0.1:5071;branch=z9hG4bKg|From: <sip:bob@home.example>;tag=b1
|To: "Alice" <sip:alice@home.example>;tag=0123456789abcdef-3|Call-ID: 0123456789abcdef-2|CSeq: 1 BYE|Content-Length: 0|
at 1010 to 1|SIP/2.0 487 Request Terminated|Via: SIP/2.0/UDP 127.0.0.1:5071;branch=z9hG4bKh1|From: "Alice" <sip:alice@home.example>;tag=t1
|To: <sip:bob@home.example>;tag=0123456789abcdef-1|Call-ID: call1|CSeq: 8 INVITE|Content-Length: 0|
at 1010 to 1|BYE sip:alice@127.0.0.1:5071 SIP/2.0|Via: SIP/2.0/UDP 127.0.0.1:5060;branch=z9hG4bK0123456789abcdef-7|Max-Forwards: 70
|From: <sip:bob@home.example>;tag=0123456789abcdef-1|To: "Alice" <sip:alice@home.example>;tag=t1|Call-ID: call1|CSeq: 1 BYE|Content-Length: 0|
at 1020 to 1|CANCEL sip:bob1@127.0.0.1:5071 SIP/2.0|Via: SIP/2.0/UDP 127.0.0.1:5060;branch=z9hG4bK0123456789abcdef-6|Max-Forwards: 70
|From: "Alice" <sip:alice@home.example>;tag=0123456789abcdef-3|To: <sip:bob@home.example>;tag=b1|Call-ID: 0123456789abcdef-2|CSeq: 2 CANCEL|Content-Length: 0|
~ Or then answers.
at 0 peer 1|INVITE sip:bob@home.example SIP/2.0|Via: SIP/2.0/UDP 127.0.0.1:5071;branch=z9hG4bKc1|Max-Forwards: 68|From: "Alice" <sip:alice@home.example>;tag=t1
|To: <sip:bob@home.example>|Call-ID: call1|CSeq: 7 INVITE|Contact: <sip:alice@127.0.0.1:5071>|P-Asserted-Identity: <sip:alice@home.example>|Content-Length: 0|
at 200 peer 1|SIP/2.0 200 OK|Via: SIP/2.0/UDP 127.0.0.1:5060;branch=z9hG4bK0123456789abcdef-4|From: "Alice" <sip:alice@home.example>;tag=0123456789abcdef-3
|To: <sip:bob@home.example>;tag=b1|Call-ID: 0123456789abcdef-2|CSeq: 1 INVITE|Contact: <sip:bob1@127.0.0.1:5071>|Content-Length: 0|
at 300 peer 1|ACK sip:127.0.0.1:5060 SIP/2.0|Via: SIP/2.0/UDP 127.0.0.1:5071;branch=z9hG4bKk1|Max-Forwards: 68|From: "Alice" <sip:alice@home.example>;tag=t1
|To: <sip:bob@home.example>;tag=0123456789abcdef-1|Call-ID: call1|CSeq: 7 ACK|Content-Length: 0|
at 1000 peer 1|INVITE sip:127.0.0.1:5060 SIP/2.0|Via: SIP/2.0/UDP 127.0.0.1:5071;branch=z9hG4bKh1|Max-Forwards: 68|From: "Alice" <sip:alice@home.example>;tag=t1
|To: <sip:bob@home.example>;tag=0123456789abcdef-1|Call-ID: call1|CSeq: 8 INVITE|Contact: <sip:alice@127.0.0.1:5071>|Content-Length: 0|
at 1010 peer 1|BYE sip:127.0.0.1:5060 SIP/2.0|Via: SIP/2.0/UDP 127.0.0.1:5071;branch=z9hG4bKg|Max-Forwards: 68|From: <sip:bob@home.example>;tag=b1
|To: "Alice" <sip:alice@home.example>;tag=0123456789abcdef-3|Call-ID: 0123456789abcdef-2|CSeq: 1 BYE|Content-Length: 0|
at 1020 peer 1|SIP/2.0 200 OK|Via: SIP/2.0/UDP 127.0.0.1:5060;branch=z9hG4bK0123456789abcdef-6|From: "Alice" <sip:alice@home.example>;tag=0123456789abcdef-3
|To: <sip:bob@home.example>;tag=b1|Call-ID: 0123456789abcdef-2|CSeq: 2 INVITE|Content-Length: 0|
~ ACK and BYE, since none was sent to him.
at 0 to 1|SIP/2.0 100 Trying|Via: SIP/2.0/UDP 127.0.0.1:5071;branch=z9hG4bKc1|From: "Alice" <sip:alice@home.example>;tag=t1|To: <sip:bob@home.example>|Call-ID: call1
|CSeq: 7 INVITE|Content-Length: 0|
at 0 to 1|INVITE sip:bob@home.example SIP/2.0|Via: SIP/2.0/UDP 127.0.0.1:5060;branch=z9hG4bK0123456789abcdef-4|Max-Forwards: 67
|From: "Alice" <sip:alice@home.example>;tag=0123456789abcdef-3|To: <sip:bob@home.example>|Call-ID: 0123456789abcdef-2|CSeq: 1 INVITE|Contact: <sip:127.0.0.1:5060>
|P-Asserted-Identity: <sip:alice@home.example>|Content-Length: 0|
at 200 to 1|SIP/2.0 200 OK|Via: SIP/2.0/UDP 127.0.0.1:5071;branch=z9hG4bKc1|From: "Alice" <sip:alice@home.example>;tag=t1
|To: <sip:bob@home.example>;tag=0123456789abcdef-1|Call-ID: call1|CSeq: 7 INVITE|Contact: <sip:127.0.0.1:5060>|Content-Length: 0|
at 300 to 1|ACK sip:bob1@127.0.0.1:5071 SIP/2.0|Via: SIP/2.0/UDP 127.0.0.1:5060;branch=z9hG4bK0123456789abcdef-5|Max-Forwards: 67
|From: "Alice" <sip:alice@home.example>;tag=0123456789abcdef-3|To: <sip:bob@home.example>;tag=b1|Call-ID: 0123456789abcdef-2|CSeq: 1 ACK|Content-Length: 0|
at 1000 to 1|SIP/2.0 100 Trying|Via: SIP/2.0/UDP 127.0.0.1:5071;branch=z9hG4bKh1|From: "Alice" <sip:alice@home.example>;tag=t1
|To: <sip:bob@home.example>;tag=0123456789abcdef-1|Call-ID: call1|CSeq: 8 INVITE|Content-Length: 0|
at 1000 to 1|INVITE sip:bob1@127.0.0.1:5071 SIP/2.0|Via: SIP/2.0/UDP 127.0.0.1:5060;branch=z9hG4bK0123456789abcdef-6|Max-Forwards: 67
|From: "Alice" <sip:alice@home.example>;tag=0123456789abcdef-3|To: <sip:bob@home.example>;tag=b1|Call-ID: 0123456789abcdef-2|CSeq: 2 INVITE|Contact: <sip:127.0.0.1:5060>
|Content-Length: 0|
at 1010 to 1|SIP/2.0 200 OK|Via: SIP/2.0/UDP 127.0.0.1:5071;branch=z9hG4bKg|From: <sip:bob@home.example>;tag=b1
|To: "Alice" <sip:alice@home.example>;tag=0123456789abcdef-3|Call-ID: 0123456789abcdef-2|CSeq: 1 BYE|Content-Length: 0|
at 1010 to 1|SIP/2.0 487 Request Terminated|Via: SIP/2.0/UDP 127.0.0.1:5071;branch=z9hG4bKh1|From: "Alice" <sip:alice@home.example>;tag=t1
|To: <sip:bob@home.example>;tag=0123456789abcdef-1|Call-ID: call1|CSeq: 8 INVITE|Content-Length: 0|
at 1010 to 1|BYE sip:alice@127.0.0.1:5071 SIP/2.0|Via: SIP/2.0/UDP 127.0.0.1:5060;branch=z9hG4bK0123456789abcdef-7|Max-Forwards: 70
|From: <sip:bob@home.example>;tag=0123456789abcdef-1|To: "Alice" <sip:alice@home.example>;tag=t1|Call-ID: call1|CSeq: 1 BYE|Content-Length: 0|
at 1020 to 1|ACK sip:bob1@127.0.0.1:5071 SIP/2.0|Via: SIP/2.0/UDP 127.0.0.1:5060;branch=z9hG4bK0123456789abcdef-8|Max-Forwards: 70
|From: "Alice" <sip:alice@home.example>;tag=0123456789abcdef-3|To: <sip:bob@home.example>;tag=b1|Call-ID: 0123456789abcdef-2|CSeq: 2 ACK|Content-Length: 0|
at 1020 to 1|BYE sip:bob1@127.0.0.1:5071 SIP/2.0|Via: SIP/2.0/UDP 127.0.0.1:5060;branch=z9hG4bK0123456789abcdef-9|Max-Forwards: 70
|From: "Alice" <sip:alice@home.example>;tag=0123456789abcdef-3|To: <sip:bob@home.example>;tag=b1|Call-ID: 0123456789abcdef-2|CSeq: 3 BYE|Content-Length: 0|
~ While she waits both ask.
at 0 peer 1|INVITE sip:bob@home.example SIP/2.0|Via: SIP/2.0/UDP 127.0.0.1:5071;branch=z9hG4bKc1|Max-Forwards: 68|From: "Alice" <sip:alice@home.example>;tag=t1
|To: <sip:bob@home.example>|Call-ID: call1|CSeq: 7 INVITE|Contact: <sip:alice@127.0.0.1:5071>|P-Asserted-Identity: <sip:alice@home.example>|Content-Length: 0|
at 200 peer 1|SIP/2.0 200 OK|Via: SIP/2.0/UDP 127.0.0.1:5060;branch=z9hG4bK0123456789abcdef-4|From: "Alice" <sip:alice@home.example>;tag=0123456789abcdef-3
|To: <sip:bob@home.example>;tag=b1|Call-ID: 0123456789abcdef-2|CSeq: 1 INVITE|Contact: <sip:bob1@127.0.0.1:5071>|Content-Length: 0|
at 300 peer 1|ACK sip:127.0.0.1:5060 SIP/2.0|Via: SIP/2.0/UDP 127.0.0.1:5071;branch=z9hG4bKk1|Max-Forwards: 68|From: "Alice" <sip:alice@home.example>;tag=t1
|To: <sip:bob@home.example>;tag=0123456789abcdef-1|Call-ID: call1|CSeq: 7 ACK|Content-Length: 0|
at 1000 peer 1|INVITE sip:127.0.0.1:5060 SIP/2.0|Via: SIP/2.0/UDP 127.0.0.1:5071;branch=z9hG4bKh1|Max-Forwards: 68|From: "Alice" <sip:alice@home.example>;tag=t1
|To: <sip:bob@home.example>;tag=0123456789abcdef-1|Call-ID: call1|CSeq: 8 INVITE|Contact: <sip:alice@127.0.0.1:5071>|Content-Type: application/sdp|Content-Length: 123|
|v=0|o=- 1 1 IN IP4 127.0.0.1|s=-|c=IN IP4 127.0.0.1|t=0 0|m=audio 5004 RTP/AVP 8 0|a=rtpmap:8 PCMA/8000|a=sendonly
at 1010 peer 1|INVITE sip:127.0.0.1:5060 SIP/2.0|Via: SIP/2.0/UDP 127.0.0.1:5071;branch=z9hG4bKg1|Max-Forwards: 68|From: <sip:bob@home.example>;tag=b1
|To: "Alice" <sip:alice@home.example>;tag=0123456789abcdef-3|Call-ID: 0123456789abcdef-2|CSeq: 1 INVITE|Contact: <sip:bob1@127.0.0.1:5071>|Content-Length: 0|
at 1020 peer 1|INVITE sip:127.0.0.1:5060 SIP/2.0|Via: SIP/2.0/UDP 127.0.0.1:5071;branch=z9hG4bKh2|Max-Forwards: 68|From: "Alice" <sip:alice@home.example>;tag=t1
|To: <sip:bob@home.example>;tag=0123456789abcdef-1|Call-ID: call1|CSeq: 9 INVITE|Contact: <sip:alice@127.0.0.1:5071>|Content-Length: 0|
~ 491 to bob, 500 to alice.
at 0 to 1|SIP/2.0 100 Trying|Via: SIP/2.0/UDP 127.0.0.1:5071;branch=z9hG4bKc1|From: "Alice" <sip:alice@home.example>;tag=t1|To: <sip:bob@home.example>|Call-ID: call1
|CSeq: 7 INVITE|Content-Length: 0|
at 0 to 1|INVITE sip:bob@home.example SIP/2.0|Via: SIP/2.0/UDP 127.0.0.1:5060;branch=z9hG4bK0123456789abcdef-4|Max-Forwards: 67
|From: "Alice" <sip:alice@home.example>;tag=0123456789abcdef-3|To: <sip:bob@home.example>|Call-ID: 0123456789abcdef-2|CSeq: 1 INVITE|Contact: <sip:127.0.0.1:5060>
|P-Asserted-Identity: <sip:alice@home.example>|Content-Length: 0|
at 200 to 1|SIP/2.0 200 OK|Via: SIP/2.0/UDP 127.0.0.1:5071;branch=z9hG4bKc1|From: "Alice" <sip:alice@home.example>;tag=t1
|To: <sip:bob@home.example>;tag=0123456789abcdef-1|Call-ID: call1|CSeq: 7 INVITE|Contact: <sip:127.0.0.1:5060>|Content-Length: 0|
at 300 to 1|ACK sip:bob1@127.0.0.1:5071 SIP/2.0|Via: SIP/2.0/UDP 127.0.0.1:5060;branch=z9hG4bK0123456789abcdef-5|Max-Forwards: 67
|From: "Alice" <sip:alice@home.example>;tag=0123456789abcdef-3|To: <sip:bob@home.example>;tag=b1|Call-ID: 0123456789abcdef-2|CSeq: 1 ACK|Content-Length: 0|
at 1000 to 1|SIP/2.0 100 Trying|Via: SIP/2.0/UDP 127.0.0.1:5071;branch=z9hG4bKh1|From: "Alice" <sip:alice@home.example>;tag=t1
|To: <sip:bob@home.example>;tag=0123456789abcdef-1|Call-ID: call1|CSeq: 8 INVITE|Content-Length: 0|
at 1000 to 1|INVITE sip:bob1@127.0.0.1:5071 SIP/2.0|Via: SIP/2.0/UDP 127.0.0.1:5060;branch=z9hG4bK0123456789abcdef-6|Max-Forwards: 67
|From: "Alice" <sip:alice@home.example>;tag=0123456789abcdef-3|To: <sip:bob@home.example>;tag=b1|Call-ID: 0123456789abcdef-2|CSeq: 2 INVITE|Contact: <sip:127.0.0.1:5060>
|Content-Type: application/sdp|Content-Length: 123||v=0|o=- 1 1 IN IP4 127.0.0.1|s=-|c=IN IP4 127.0.0.1|t=0 0|m=audio 5004 RTP/AVP 8 0|a=rtpmap:8 PCMA/8000|a=sendonly
at 1010 to 1|SIP/2.0 491 Request Pending|Via: SIP/2.0/UDP 127.0.0.1:5071;branch=z9hG4bKg1|From: <sip:bob@home.example>;tag=b1
|To: "Alice" <sip:alice@home.example>;tag=0123456789abcdef-3|Call-ID: 0123456789abcdef-2|CSeq: 1 INVITE|Content-Length: 0|
at 1020 to 1|SIP/2.0 500 Server Internal Error|Via: SIP/2.0/UDP 127.0.0.1:5071;branch=z9hG4bKh2|From: "Alice" <sip:alice@home.example>;tag=t1
|To: <sip:bob@home.example>;tag=0123456789abcdef-1|Call-ID: call1|CSeq: 9 INVITE|Retry-After: 5|Content-Length: 0|
~ While she waits she cancels the INVITE that opened the call.
at 0 peer 1|INVITE sip:bob@home.example SIP/2.0|Via: SIP/2.0/UDP 127.0.0.1:5071;branch=z9hG4bKc1|Max-Forwards: 68|From: "Alice" <sip:alice@home.example>;tag=t1
|To: <sip:bob@home.example>|Call-ID: call1|CSeq: 7 INVITE|Contact: <sip:alice@127.0.0.1:5071>|P-Asserted-Identity: <sip:alice@home.example>|Content-Length: 0|
at 200 peer 1|SIP/2.0 200 OK|Via: SIP/2.0/UDP 127.0.0.1:5060;branch=z9hG4bK0123456789abcdef-4|From: "Alice" <sip:alice@home.example>;tag=0123456789abcdef-3
|To: <sip:bob@home.example>;tag=b1|Call-ID: 0123456789abcdef-2|CSeq: 1 INVITE|Contact: <sip:bob1@127.0.0.1:5071>|Content-Length: 0|
at 300 peer 1|ACK sip:127.0.0.1:5060 SIP/2.0|Via: SIP/2.0/UDP 127.0.0.1:5071;branch=z9hG4bKk1|Max-Forwards: 68|From: "Alice" <sip:alice@home.example>;tag=t1
|To: <sip:bob@home.example>;tag=0123456789abcdef-1|Call-ID: call1|CSeq: 7 ACK|Content-Length: 0|
at 1000 peer 1|INVITE sip:127.0.0.1:5060 SIP/2.0|Via: SIP/2.0/UDP 127.0.0.1:5071;branch=z9hG4bKh1|Max-Forwards: 68|From: "Alice" <sip:alice@home.example>;tag=t1
|To: <sip:bob@home.example>;tag=0123456789abcdef-1|Call-ID: call1|CSeq: 8 INVITE|Contact: <sip:alice@127.0.0.1:5071>|Content-Length: 0|
at 1010 peer 1|SIP/2.0 180 Ringing|Via: SIP/2.0/UDP 127.0.0.1:5060;branch=z9hG4bK0123456789abcdef-6|From: "Alice" <sip:alice@home.example>;tag=0123456789abcdef-3
|To: <sip:bob@home.example>;tag=b1|Call-ID: 0123456789abcdef-2|CSeq: 2 INVITE|Content-Length: 0|
at 1020 peer 1|CANCEL sip:bob@home.example SIP/2.0|Via: SIP/2.0/UDP 127.0.0.1:5071;branch=z9hG4bKc1|Max-Forwards: 68|From: "Alice" <sip:alice@home.example>;tag=t1
|To: <sip:bob@home.example>|Call-ID: call1|CSeq: 7 CANCEL|Content-Length: 0|
~ 200 alone: it has its final answer.
at 0 to 1|SIP/2.0 100 Trying|Via: SIP/2.0/UDP 127.0.0.1:5071;branch=z9hG4bKc1|From: "Alice" <sip:alice@home.example>;tag=t1|To: <sip:bob@home.example>|Call-ID: call1
|CSeq: 7 INVITE|Content-Length: 0|
at 0 to 1|INVITE sip:bob@home.example SIP/2.0|Via: SIP/2.0/UDP 127.0.0.1:5060;branch=z9hG4bK0123456789abcdef-4|Max-Forwards: 67
|From: "Alice" <sip:alice@home.example>;tag=0123456789abcdef-3|To: <sip:bob@home.example>|Call-ID: 0123456789abcdef-2|CSeq: 1 INVITE|Contact: <sip:127.0.0.1:5060>
|P-Asserted-Identity: <sip:alice@home.example>|Content-Length: 0|
at 200 to 1|SIP/2.0 200 OK|Via: SIP/2.0/UDP 127.0.0.1:5071;branch=z9hG4bKc1|From: "Alice" <sip:alice@home.example>;tag=t1
|To: <sip:bob@home.example>;tag=0123456789abcdef-1|Call-ID: call1|CSeq: 7 INVITE|Contact: <sip:127.0.0.1:5060>|Content-Length: 0|
at 300 to 1|ACK sip:bob1@127.0.0.1:5071 SIP/2.0|Via: SIP/2.0/UDP 127.0.0.1:5060;branch=z9hG4bK0123456789abcdef-5|Max-Forwards: 67
|From: "Alice" <sip:alice@home.example>;tag=0123456789abcdef-3|To: <sip:bob@home.example>;tag=b1|Call-ID: 0123456789abcdef-2|CSeq: 1 ACK|Content-Length: 0|
at 1000 to 1|SIP/2.0 100 Trying|Via: SIP/2.0/UDP 127.0.0.1:5071;branch=z9hG4bKh1|From: "Alice" <sip:alice@home.example>;tag=t1
|To: <sip:bob@home.example>;tag=0123456789abcdef-1|Call-ID: call1|CSeq: 8 INVITE|Content-Length: 0|
at 1000 to 1|INVITE sip:bob1@127.0.0.1:5071 SIP/2.0|Via: SIP/2.0/UDP 127.0.0.1:5060;branch=z9hG4bK0123456789abcdef-6|Max-Forwards: 67
|From: "Alice" <sip:alice@home.example>;tag=0123456789abcdef-3|To: <sip:bob@home.example>;tag=b1|Call-ID: 0123456789abcdef-2|CSeq: 2 INVITE|Contact: <sip:127.0.0.1:5060>
|Content-Length: 0|
at 1020 to 1|SIP/2.0 200 OK|Via: SIP/2.0/UDP 127.0.0.1:5071;branch=z9hG4bKc1|From: "Alice" <sip:alice@home.example>;tag=t1
|To: <sip:bob@home.example>;tag=0123456789abcdef-1|Call-ID: call1|CSeq: 7 CANCEL|Content-Length: 0|
"#;

#[test]
fn asking(rt: HostRuntime) {
    assert_right(&rt, "ASKING", wrong_run(rt.alloc(), ASKING));
}

/// Late messages, and which identities are passed on to whom.
const LATE: &[u8] = br#"~ A 200 of another dialog comes in a talking call.
at 0 peer 1|INVITE sip:bob@home.example SIP/2.0|Via: SIP/2.0/UDP 127.0.0.1:5071;branch=z9hG4bKc1|Max-Forwards: 68|From: "Alice" <sip:alice@home.example>;tag=t1
|To: <sip:bob@home.example>|Call-ID: call1|CSeq: 7 INVITE|Contact: <sip:alice@127.0.0.1:5071>|P-Asserted-Identity: <sip:alice@home.example>|Content-Length: 0|
at 200 peer 1|SIP/2.0 200 OK|Via: SIP/2.0/UDP 127.0.0.1:5060;branch=z9hG4bK0123456789abcdef-4|From: "Alice" <sip:alice@home.example>;tag=0123456789abcdef-3
|To: <sip:bob@home.example>;tag=b1|Call-ID: 0123456789abcdef-2|CSeq: 1 INVITE|Contact: <sip:bob1@127.0.0.1:5071>|Content-Length: 0|
at 300 peer 1|ACK sip:127.0.0.1:5060 SIP/2.0|Via: SIP/2.0/UDP 127.0.0.1:5071;branch=z9hG4bKk1|Max-Forwards: 68|From: "Alice" <sip:alice@home.example>;tag=t1
|To: <sip:bob@home.example>;tag=0123456789abcdef-1|Call-ID: call1|CSeq: 7 ACK|Content-Length: 0|
at 400 peer 1|SIP/2.0 200 OK|Via: SIP/2.0/UDP 127.0.0.1:5060;branch=z9hG4bK0123456789abcdef-4|From: "Alice" <sip:alice@home.example>;tag=0123456789abcdef-3
|To: <sip:bob@home.example>;tag=zz|Call-ID: 0123456789abcdef-2|CSeq: 1 INVITE|Contact: <sip:fork@127.0.0.1:5071>|Content-Length: 0|
~ ACK and BYE to that dialog alone.
at 0 to 1|SIP/2.0 100 Trying|Via: SIP/2.0/UDP 127.0.0.1:5071;branch=z9hG4bKc1|From: "Alice" <sip:alice@home.example>;tag=t1|To: <sip:bob@home.example>|Call-ID: call1
|CSeq: 7 INVITE|Content-Length: 0|
at 0 to 1|INVITE sip:bob@home.example SIP/2.0|Via: SIP/2.0/UDP 127.0.0.1:5060;branch=z9hG4bK0123456789abcdef-4|Max-Forwards: 67
|From: "Alice" <sip:alice@home.example>;tag=0123456789abcdef-3|To: <sip:bob@home.example>|Call-ID: 0123456789abcdef-2|CSeq: 1 INVITE|Contact: <sip:127.0.0.1:5060>
|P-Asserted-Identity: <sip:alice@home.example>|Content-Length: 0|
at 200 to 1|SIP/2.0 200 OK|Via: SIP/2.0/UDP 127.0.0.1:5071;branch=z9hG4bKc1|From: "Alice" <sip:alice@home.example>;tag=t1
|To: <sip:bob@home.example>;tag=0123456789abcdef-1|Call-ID: call1|CSeq: 7 INVITE|Contact: <sip:127.0.0.1:5060>|Content-Length: 0|
at 300 to 1|ACK sip:bob1@127.0.0.1:5071 SIP/2.0|Via: SIP/2.0/UDP 127.0.0.1:5060;branch=z9hG4bK0123456789abcdef-5|Max-Forwards: 67
|From: "Alice" <sip:alice@home.example>;tag=0123456789abcdef-3|To: <sip:bob@home.example>;tag=b1|Call-ID: 0123456789abcdef-2|CSeq: 1 ACK|Content-Length: 0|
at 400 to 1|ACK sip:fork@127.0.0.1:5071 SIP/2.0|Via: SIP/2.0/UDP 127.0.0.1:5060;branch=z9hG4bK0123456789abcdef-6|Max-Forwards: 70
|From: "Alice" <sip:alice@home.example>;tag=0123456789abcdef-3|To: <sip:bob@home.example>;tag=zz|Call-ID: 0123456789abcdef-2|CSeq: 1 ACK|Content-Length: 0|
at 400 to 1|BYE sip:fork@127.0.0.1:5071 SIP/2.0|Via: SIP/2.0/UDP 127.0.0.1:5060;branch=z9hG4bK0123456789abcdef-7|Max-Forwards: 70
|From: "Alice" <sip:alice@home.example>;tag=0123456789abcdef-3|To: <sip:bob@home.example>;tag=zz|Call-ID: 0123456789abcdef-2|CSeq: 2 BYE|Content-Length: 0|
~ Bob does not answer in time, and the call goes on; then his 200 comes twice, in two dialogs.
# [communication-diversion]
# [[communication-diversion.rule]]
# no-answer = true
# target = "sip:vm@far.example"
at 0 web|PUT /simservs/2 HTTP/1.1|X-3GPP-Asserted-Identity: "sip:bob@home.example"|Content-Type: application/toml|Content-Length: 106|
x5b636f6d6d756e69636174696f6e2d646976657273696f6e5d0a5b5b636f6d6d756e69636174696f6e2d646976657273696f6e2e72756c655d5d0a6e6f2d616e73776572203d20747275650a7461726\
76574203d20227369703a766d406661722e6578616d706c65220a
at 0 peer 1|INVITE sip:bob@home.example SIP/2.0|Via: SIP/2.0/UDP 127.0.0.1:5071;branch=z9hG4bKc1|Max-Forwards: 68|From: "Alice" <sip:alice@home.example>;tag=t1
|To: <sip:bob@home.example>|Call-ID: call1|CSeq: 7 INVITE|Contact: <sip:alice@127.0.0.1:5071>|P-Asserted-Identity: <sip:alice@home.example>|Content-Length: 0|
at 100 peer 1|SIP/2.0 180 Ringing|Via: SIP/2.0/UDP 127.0.0.1:5060;branch=z9hG4bK0123456789abcdef-4|From: "Alice" <sip:alice@home.example>;tag=0123456789abcdef-3
|To: <sip:bob@home.example>;tag=b1|Call-ID: 0123456789abcdef-2|CSeq: 1 INVITE|Content-Length: 0|
at 20100 quiet
at 20200 peer 1|SIP/2.0 200 OK|Via: SIP/2.0/UDP 127.0.0.1:5060;branch=z9hG4bK0123456789abcdef-4|From: "Alice" <sip:alice@home.example>;tag=0123456789abcdef-3
|To: <sip:bob@home.example>;tag=b1|Call-ID: 0123456789abcdef-2|CSeq: 1 INVITE|Contact: <sip:bob1@127.0.0.1:5071>|Content-Length: 0|
at 20300 peer 1|SIP/2.0 200 OK|Via: SIP/2.0/UDP 127.0.0.1:5060;branch=z9hG4bK0123456789abcdef-4|From: "Alice" <sip:alice@home.example>;tag=0123456789abcdef-3
|To: <sip:bob@home.example>;tag=b2|Call-ID: 0123456789abcdef-2|CSeq: 1 INVITE|Contact: <sip:bob1@127.0.0.1:5071>|Content-Length: 0|
~ ACK and BYE to each.
at 0 web|HTTP/1.1 200 OK|Content-Length: 0|Connection: close|
at 0 to 1|SIP/2.0 100 Trying|Via: SIP/2.0/UDP 127.0.0.1:5071;branch=z9hG4bKc1|From: "Alice" <sip:alice@home.example>;tag=t1|To: <sip:bob@home.example>|Call-ID: call1
|CSeq: 7 INVITE|Content-Length: 0|
at 0 to 1|INVITE sip:bob@home.example SIP/2.0|Via: SIP/2.0/UDP 127.0.0.1:5060;branch=z9hG4bK0123456789abcdef-4|Max-Forwards: 67
|From: "Alice" <sip:alice@home.example>;tag=0123456789abcdef-3|To: <sip:bob@home.example>|Call-ID: 0123456789abcdef-2|CSeq: 1 INVITE|Contact: <sip:127.0.0.1:5060>
|P-Asserted-Identity: <sip:alice@home.example>|Content-Length: 0|
at 100 to 1|SIP/2.0 180 Ringing|Via: SIP/2.0/UDP 127.0.0.1:5071;branch=z9hG4bKc1|From: "Alice" <sip:alice@home.example>;tag=t1
|To: <sip:bob@home.example>;tag=0123456789abcdef-1|Call-ID: call1|CSeq: 7 INVITE|Contact: <sip:127.0.0.1:5060>|Content-Length: 0|
at 20100 to 1|CANCEL sip:bob@home.example SIP/2.0|Via: SIP/2.0/UDP 127.0.0.1:5060;branch=z9hG4bK0123456789abcdef-4|Max-Forwards: 70
|From: "Alice" <sip:alice@home.example>;tag=0123456789abcdef-3|To: <sip:bob@home.example>|Call-ID: 0123456789abcdef-2|CSeq: 1 CANCEL|Content-Length: 0|
at 20100 to 1|SIP/2.0 181 Call Is Being Forwarded|Via: SIP/2.0/UDP 127.0.0.1:5071;branch=z9hG4bKc1|From: "Alice" <sip:alice@home.example>;tag=t1
|To: <sip:bob@home.example>;tag=0123456789abcdef-1|Call-ID: call1|CSeq: 7 INVITE|Contact: <sip:127.0.0.1:5060>|History-Info: <sip:bob@home.example>;index=1
|History-Info: <sip:vm@far.example;cause=408>;index=1.1|Content-Length: 0|
at 20100 to 2|INVITE sip:vm@far.example;cause=408 SIP/2.0|Via: SIP/2.0/UDP 127.0.0.1:5060;branch=z9hG4bK0123456789abcdef-7|Max-Forwards: 67
|From: "Alice" <sip:alice@home.example>;tag=0123456789abcdef-6|To: <sip:vm@far.example>|Call-ID: 0123456789abcdef-5|CSeq: 1 INVITE|Contact: <sip:127.0.0.1:5060>
|P-Asserted-Identity: <sip:alice@home.example>|History-Info: <sip:bob@home.example>;index=1|History-Info: <sip:vm@far.example;cause=408>;index=1.1|Content-Length: 0|
at 20200 to 1|ACK sip:bob1@127.0.0.1:5071 SIP/2.0|Via: SIP/2.0/UDP 127.0.0.1:5060;branch=z9hG4bK0123456789abcdef-8|Max-Forwards: 70
|From: "Alice" <sip:alice@home.example>;tag=0123456789abcdef-3|To: <sip:bob@home.example>;tag=b1|Call-ID: 0123456789abcdef-2|CSeq: 1 ACK|Content-Length: 0|
at 20200 to 1|BYE sip:bob1@127.0.0.1:5071 SIP/2.0|Via: SIP/2.0/UDP 127.0.0.1:5060;branch=z9hG4bK0123456789abcdef-9|Max-Forwards: 70
|From: "Alice" <sip:alice@home.example>;tag=0123456789abcdef-3|To: <sip:bob@home.example>;tag=b1|Call-ID: 0123456789abcdef-2|CSeq: 2 BYE|Content-Length: 0|
at 20300 to 1|ACK sip:bob1@127.0.0.1:5071 SIP/2.0|Via: SIP/2.0/UDP 127.0.0.1:5060;branch=z9hG4bK0123456789abcdef-10|Max-Forwards: 70
|From: "Alice" <sip:alice@home.example>;tag=0123456789abcdef-3|To: <sip:bob@home.example>;tag=b2|Call-ID: 0123456789abcdef-2|CSeq: 1 ACK|Content-Length: 0|
at 20300 to 1|BYE sip:bob1@127.0.0.1:5071 SIP/2.0|Via: SIP/2.0/UDP 127.0.0.1:5060;branch=z9hG4bK0123456789abcdef-11|Max-Forwards: 70
|From: "Alice" <sip:alice@home.example>;tag=0123456789abcdef-3|To: <sip:bob@home.example>;tag=b2|Call-ID: 0123456789abcdef-2|CSeq: 2 BYE|Content-Length: 0|
~ Alice cancels an INVITE of which nothing ever comes; a 200 comes when it was given up.
at 0 peer 1|INVITE sip:bob@home.example SIP/2.0|Via: SIP/2.0/UDP 127.0.0.1:5071;branch=z9hG4bKc1|Max-Forwards: 68|From: "Alice" <sip:alice@home.example>;tag=t1
|To: <sip:bob@home.example>|Call-ID: call1|CSeq: 7 INVITE|Contact: <sip:alice@127.0.0.1:5071>|P-Asserted-Identity: <sip:alice@home.example>|Content-Length: 0|
at 100 peer 1|CANCEL sip:bob@home.example SIP/2.0|Via: SIP/2.0/UDP 127.0.0.1:5071;branch=z9hG4bKc1|Max-Forwards: 68|From: "Alice" <sip:alice@home.example>;tag=t1
|To: <sip:bob@home.example>|Call-ID: call1|CSeq: 7 CANCEL|Content-Length: 0|
at 400 peer 1|ACK sip:bob@home.example SIP/2.0|Via: SIP/2.0/UDP 127.0.0.1:5071;branch=z9hG4bKc1|Max-Forwards: 68|From: "Alice" <sip:alice@home.example>;tag=t1
|To: <sip:bob@home.example>;tag=0123456789abcdef-1|Call-ID: call1|CSeq: 7 ACK|Content-Length: 0|
at 32001 quiet
at 32002 peer 1|SIP/2.0 200 OK|Via: SIP/2.0/UDP 127.0.0.1:5060;branch=z9hG4bK0123456789abcdef-4|From: "Alice" <sip:alice@home.example>;tag=0123456789abcdef-3
|To: <sip:bob@home.example>;tag=b1|Call-ID: 0123456789abcdef-2|CSeq: 1 INVITE|Contact: <sip:bob1@127.0.0.1:5071>|Content-Length: 0|
~ Nothing for that.
at 0 to 1|SIP/2.0 100 Trying|Via: SIP/2.0/UDP 127.0.0.1:5071;branch=z9hG4bKc1|From: "Alice" <sip:alice@home.example>;tag=t1|To: <sip:bob@home.example>|Call-ID: call1
|CSeq: 7 INVITE|Content-Length: 0|
at 0 to 1|INVITE sip:bob@home.example SIP/2.0|Via: SIP/2.0/UDP 127.0.0.1:5060;branch=z9hG4bK0123456789abcdef-4|Max-Forwards: 67
|From: "Alice" <sip:alice@home.example>;tag=0123456789abcdef-3|To: <sip:bob@home.example>|Call-ID: 0123456789abcdef-2|CSeq: 1 INVITE|Contact: <sip:127.0.0.1:5060>
|P-Asserted-Identity: <sip:alice@home.example>|Content-Length: 0|
at 100 to 1|SIP/2.0 200 OK|Via: SIP/2.0/UDP 127.0.0.1:5071;branch=z9hG4bKc1|From: "Alice" <sip:alice@home.example>;tag=t1
|To: <sip:bob@home.example>;tag=0123456789abcdef-1|Call-ID: call1|CSeq: 7 CANCEL|Content-Length: 0|
at 100 to 1|SIP/2.0 487 Request Terminated|Via: SIP/2.0/UDP 127.0.0.1:5071;branch=z9hG4bKc1|From: "Alice" <sip:alice@home.example>;tag=t1
|To: <sip:bob@home.example>;tag=0123456789abcdef-1|Call-ID: call1|CSeq: 7 INVITE|Content-Length: 0|
at 500 to 1|INVITE sip:bob@home.example SIP/2.0|Via: SIP/2.0/UDP 127.0.0.1:5060;branch=z9hG4bK0123456789abcdef-4|Max-Forwards: 67
|From: "Alice" <sip:alice@home.example>;tag=0123456789abcdef-3|To: <sip:bob@home.example>|Call-ID: 0123456789abcdef-2|CSeq: 1 INVITE|Contact: <sip:127.0.0.1:5060>
|P-Asserted-Identity: <sip:alice@home.example>|Content-Length: 0|
at 1500 to 1|INVITE sip:bob@home.example SIP/2.0|Via: SIP/2.0/UDP 127.0.0.1:5060;branch=z9hG4bK0123456789abcdef-4|Max-Forwards: 67
|From: "Alice" <sip:alice@home.example>;tag=0123456789abcdef-3|To: <sip:bob@home.example>|Call-ID: 0123456789abcdef-2|CSeq: 1 INVITE|Contact: <sip:127.0.0.1:5060>
|P-Asserted-Identity: <sip:alice@home.example>|Content-Length: 0|
at 3500 to 1|INVITE sip:bob@home.example SIP/2.0|Via: SIP/2.0/UDP 127.0.0.1:5060;branch=z9hG4bK0123456789abcdef-4|Max-Forwards: 67
|From: "Alice" <sip:alice@home.example>;tag=0123456789abcdef-3|To: <sip:bob@home.example>|Call-ID: 0123456789abcdef-2|CSeq: 1 INVITE|Contact: <sip:127.0.0.1:5060>
|P-Asserted-Identity: <sip:alice@home.example>|Content-Length: 0|
at 7500 to 1|INVITE sip:bob@home.example SIP/2.0|Via: SIP/2.0/UDP 127.0.0.1:5060;branch=z9hG4bK0123456789abcdef-4|Max-Forwards: 67
|From: "Alice" <sip:alice@home.example>;tag=0123456789abcdef-3|To: <sip:bob@home.example>|Call-ID: 0123456789abcdef-2|CSeq: 1 INVITE|Contact: <sip:127.0.0.1:5060>
|P-Asserted-Identity: <sip:alice@home.example>|Content-Length: 0|
at 15500 to 1|INVITE sip:bob@home.example SIP/2.0|Via: SIP/2.0/UDP 127.0.0.1:5060;branch=z9hG4bK0123456789abcdef-4|Max-Forwards: 67
|From: "Alice" <sip:alice@home.example>;tag=0123456789abcdef-3|To: <sip:bob@home.example>|Call-ID: 0123456789abcdef-2|CSeq: 1 INVITE|Contact: <sip:127.0.0.1:5060>
|P-Asserted-Identity: <sip:alice@home.example>|Content-Length: 0|
at 31500 to 1|INVITE sip:bob@home.example SIP/2.0|Via: SIP/2.0/UDP 127.0.0.1:5060;branch=z9hG4bK0123456789abcdef-4|Max-Forwards: 67
|From: "Alice" <sip:alice@home.example>;tag=0123456789abcdef-3|To: <sip:bob@home.example>|Call-ID: 0123456789abcdef-2|CSeq: 1 INVITE|Contact: <sip:127.0.0.1:5060>
|P-Asserted-Identity: <sip:alice@home.example>|Content-Length: 0|
~ A CANCEL comes when the final answer was sent.
at 0 peer 1|INVITE sip:bob@home.example SIP/2.0|Via: SIP/2.0/UDP 127.0.0.1:5071;branch=z9hG4bKc1|Max-Forwards: 68|From: "Alice" <sip:alice@home.example>;tag=t1
|To: <sip:bob@home.example>|Call-ID: call1|CSeq: 7 INVITE|Contact: <sip:alice@127.0.0.1:5071>|P-Asserted-Identity: <sip:alice@home.example>|Content-Length: 0|
at 100 peer 1|SIP/2.0 486 Busy|Via: SIP/2.0/UDP 127.0.0.1:5060;branch=z9hG4bK0123456789abcdef-4|From: "Alice" <sip:alice@home.example>;tag=0123456789abcdef-3
|To: <sip:bob@home.example>;tag=bt|Call-ID: 0123456789abcdef-2|CSeq: 1 INVITE|Content-Length: 0|
at 200 peer 1|CANCEL sip:bob@home.example SIP/2.0|Via: SIP/2.0/UDP 127.0.0.1:5071;branch=z9hG4bKc1|Max-Forwards: 68|From: "Alice" <sip:alice@home.example>;tag=t1
|To: <sip:bob@home.example>|Call-ID: call1|CSeq: 7 CANCEL|Content-Length: 0|
~ 200, and no more.
at 0 to 1|SIP/2.0 100 Trying|Via: SIP/2.0/UDP 127.0.0.1:5071;branch=z9hG4bKc1|From: "Alice" <sip:alice@home.example>;tag=t1|To: <sip:bob@home.example>|Call-ID: call1
|CSeq: 7 INVITE|Content-Length: 0|
at 0 to 1|INVITE sip:bob@home.example SIP/2.0|Via: SIP/2.0/UDP 127.0.0.1:5060;branch=z9hG4bK0123456789abcdef-4|Max-Forwards: 67
|From: "Alice" <sip:alice@home.example>;tag=0123456789abcdef-3|To: <sip:bob@home.example>|Call-ID: 0123456789abcdef-2|CSeq: 1 INVITE|Contact: <sip:127.0.0.1:5060>
|P-Asserted-Identity: <sip:alice@home.example>|Content-Length: 0|
at 100 to 1|ACK sip:bob@home.example SIP/2.0|Via: SIP/2.0/UDP 127.0.0.1:5060;branch=z9hG4bK0123456789abcdef-4|Max-Forwards: 70
|From: "Alice" <sip:alice@home.example>;tag=0123456789abcdef-3|To: <sip:bob@home.example>;tag=bt|Call-ID: 0123456789abcdef-2|CSeq: 1 ACK|Content-Length: 0|
at 100 to 1|SIP/2.0 486 Busy|Via: SIP/2.0/UDP 127.0.0.1:5071;branch=z9hG4bKc1|From: "Alice" <sip:alice@home.example>;tag=t1
|To: <sip:bob@home.example>;tag=0123456789abcdef-1|Call-ID: call1|CSeq: 7 INVITE|Content-Length: 0|
at 200 to 1|SIP/2.0 200 OK|Via: SIP/2.0/UDP 127.0.0.1:5071;branch=z9hG4bKc1|From: "Alice" <sip:alice@home.example>;tag=t1
|To: <sip:bob@home.example>;tag=0123456789abcdef-5|Call-ID: call1|CSeq: 7 CANCEL|Content-Length: 0|
~ The 200 is sent again though alice hung up, until her ACK comes.
at 0 peer 1|INVITE sip:bob@home.example SIP/2.0|Via: SIP/2.0/UDP 127.0.0.1:5071;branch=z9hG4bKc1|Max-Forwards: 68|From: "Alice" <sip:alice@home.example>;tag=t1
|To: <sip:bob@home.example>|Call-ID: call1|CSeq: 7 INVITE|Contact: <sip:alice@127.0.0.1:5071>|P-Asserted-Identity: <sip:alice@home.example>|Content-Length: 0|
at 200 peer 1|SIP/2.0 200 OK|Via: SIP/2.0/UDP 127.0.0.1:5060;branch=z9hG4bK0123456789abcdef-4|From: "Alice" <sip:alice@home.example>;tag=0123456789abcdef-3
|To: <sip:bob@home.example>;tag=b1|Call-ID: 0123456789abcdef-2|CSeq: 1 INVITE|Contact: <sip:bob1@127.0.0.1:5071>|Content-Length: 0|
at 300 peer 1|BYE sip:127.0.0.1:5060 SIP/2.0|Via: SIP/2.0/UDP 127.0.0.1:5071;branch=z9hG4bKy|Max-Forwards: 68|From: "Alice" <sip:alice@home.example>;tag=t1
|To: <sip:bob@home.example>;tag=0123456789abcdef-1|Call-ID: call1|CSeq: 8 BYE|Content-Length: 0|
at 310 peer 1|SIP/2.0 200 OK|Via: SIP/2.0/UDP 127.0.0.1:5060;branch=z9hG4bK0123456789abcdef-6|From: "Alice" <sip:alice@home.example>;tag=0123456789abcdef-3
|To: <sip:bob@home.example>;tag=b1|Call-ID: 0123456789abcdef-2|CSeq: 2 BYE|Content-Length: 0|
at 1700 quiet
at 1800 peer 1|ACK sip:bob@home.example SIP/2.0|Via: SIP/2.0/UDP 127.0.0.1:5071;branch=z9hG4bKc1|Max-Forwards: 68|From: "Alice" <sip:alice@home.example>;tag=t1
|To: <sip:bob@home.example>;tag=0123456789abcdef-1|Call-ID: call1|CSeq: 7 ACK|Content-Length: 0|
at 40000 quiet
~ Each at its moment.
at 0 to 1|SIP/2.0 100 Trying|Via: SIP/2.0/UDP 127.0.0.1:5071;branch=z9hG4bKc1|From: "Alice" <sip:alice@home.example>;tag=t1|To: <sip:bob@home.example>|Call-ID: call1
|CSeq: 7 INVITE|Content-Length: 0|
at 0 to 1|INVITE sip:bob@home.example SIP/2.0|Via: SIP/2.0/UDP 127.0.0.1:5060;branch=z9hG4bK0123456789abcdef-4|Max-Forwards: 67
|From: "Alice" <sip:alice@home.example>;tag=0123456789abcdef-3|To: <sip:bob@home.example>|Call-ID: 0123456789abcdef-2|CSeq: 1 INVITE|Contact: <sip:127.0.0.1:5060>
|P-Asserted-Identity: <sip:alice@home.example>|Content-Length: 0|
at 200 to 1|SIP/2.0 200 OK|Via: SIP/2.0/UDP 127.0.0.1:5071;branch=z9hG4bKc1|From: "Alice" <sip:alice@home.example>;tag=t1
|To: <sip:bob@home.example>;tag=0123456789abcdef-1|Call-ID: call1|CSeq: 7 INVITE|Contact: <sip:127.0.0.1:5060>|Content-Length: 0|
at 300 to 1|SIP/2.0 200 OK|Via: SIP/2.0/UDP 127.0.0.1:5071;branch=z9hG4bKy|From: "Alice" <sip:alice@home.example>;tag=t1|To: <sip:bob@home.example>;tag=0123456789abcdef-1
|Call-ID: call1|CSeq: 8 BYE|Content-Length: 0|
at 300 to 1|ACK sip:bob1@127.0.0.1:5071 SIP/2.0|Via: SIP/2.0/UDP 127.0.0.1:5060;branch=z9hG4bK0123456789abcdef-5|Max-Forwards: 70
|From: "Alice" <sip:alice@home.example>;tag=0123456789abcdef-3|To: <sip:bob@home.example>;tag=b1|Call-ID: 0123456789abcdef-2|CSeq: 1 ACK|Content-Length: 0|
at 300 to 1|BYE sip:bob1@127.0.0.1:5071 SIP/2.0|Via: SIP/2.0/UDP 127.0.0.1:5060;branch=z9hG4bK0123456789abcdef-6|Max-Forwards: 70
|From: "Alice" <sip:alice@home.example>;tag=0123456789abcdef-3|To: <sip:bob@home.example>;tag=b1|Call-ID: 0123456789abcdef-2|CSeq: 2 BYE|Content-Length: 0|
at 700 to 1|SIP/2.0 200 OK|Via: SIP/2.0/UDP 127.0.0.1:5071;branch=z9hG4bKc1|From: "Alice" <sip:alice@home.example>;tag=t1
|To: <sip:bob@home.example>;tag=0123456789abcdef-1|Call-ID: call1|CSeq: 7 INVITE|Contact: <sip:127.0.0.1:5060>|Content-Length: 0|
at 1700 to 1|SIP/2.0 200 OK|Via: SIP/2.0/UDP 127.0.0.1:5071;branch=z9hG4bKc1|From: "Alice" <sip:alice@home.example>;tag=t1
|To: <sip:bob@home.example>;tag=0123456789abcdef-1|Call-ID: call1|CSeq: 7 INVITE|Contact: <sip:127.0.0.1:5060>|Content-Length: 0|
~ A final answer comes from another peer.
at 0 peer 1|INVITE sip:bob@home.example SIP/2.0|Via: SIP/2.0/UDP 127.0.0.1:5071;branch=z9hG4bKc1|Max-Forwards: 68|From: "Alice" <sip:alice@home.example>;tag=t1
|To: <sip:bob@home.example>|Call-ID: call1|CSeq: 7 INVITE|Contact: <sip:alice@127.0.0.1:5071>|P-Asserted-Identity: <sip:alice@home.example>|Content-Length: 0|
at 100 peer 2|SIP/2.0 486 Busy|Via: SIP/2.0/UDP 127.0.0.1:5060;branch=z9hG4bK0123456789abcdef-4|From: "Alice" <sip:alice@home.example>;tag=0123456789abcdef-3
|To: <sip:bob@home.example>;tag=bt|Call-ID: 0123456789abcdef-2|CSeq: 1 INVITE|P-Asserted-Identity: <sip:bob@home.example>|Content-Length: 0|
~ It is heard, and the ACK goes to the peer of the INVITE.
at 0 to 1|SIP/2.0 100 Trying|Via: SIP/2.0/UDP 127.0.0.1:5071;branch=z9hG4bKc1|From: "Alice" <sip:alice@home.example>;tag=t1|To: <sip:bob@home.example>|Call-ID: call1
|CSeq: 7 INVITE|Content-Length: 0|
at 0 to 1|INVITE sip:bob@home.example SIP/2.0|Via: SIP/2.0/UDP 127.0.0.1:5060;branch=z9hG4bK0123456789abcdef-4|Max-Forwards: 67
|From: "Alice" <sip:alice@home.example>;tag=0123456789abcdef-3|To: <sip:bob@home.example>|Call-ID: 0123456789abcdef-2|CSeq: 1 INVITE|Contact: <sip:127.0.0.1:5060>
|P-Asserted-Identity: <sip:alice@home.example>|Content-Length: 0|
at 100 to 1|ACK sip:bob@home.example SIP/2.0|Via: SIP/2.0/UDP 127.0.0.1:5060;branch=z9hG4bK0123456789abcdef-4|Max-Forwards: 70
|From: "Alice" <sip:alice@home.example>;tag=0123456789abcdef-3|To: <sip:bob@home.example>;tag=bt|Call-ID: 0123456789abcdef-2|CSeq: 1 ACK|Content-Length: 0|
at 100 to 1|SIP/2.0 486 Busy|Via: SIP/2.0/UDP 127.0.0.1:5071;branch=z9hG4bKc1|From: "Alice" <sip:alice@home.example>;tag=t1
|To: <sip:bob@home.example>;tag=0123456789abcdef-1|Call-ID: call1|CSeq: 7 INVITE|Content-Length: 0|
~ Another final answer comes behind the first.
at 0 peer 1|INVITE sip:bob@home.example SIP/2.0|Via: SIP/2.0/UDP 127.0.0.1:5071;branch=z9hG4bKc1|Max-Forwards: 68|From: "Alice" <sip:alice@home.example>;tag=t1
|To: <sip:bob@home.example>|Call-ID: call1|CSeq: 7 INVITE|Contact: <sip:alice@127.0.0.1:5071>|P-Asserted-Identity: <sip:alice@home.example>|Content-Length: 0|
at 100 peer 1|SIP/2.0 486 Busy|Via: SIP/2.0/UDP 127.0.0.1:5060;branch=z9hG4bK0123456789abcdef-4|From: "Alice" <sip:alice@home.example>;tag=0123456789abcdef-3
|To: <sip:bob@home.example>;tag=b1|Call-ID: 0123456789abcdef-2|CSeq: 1 INVITE|Content-Length: 0|
at 110 peer 1|ACK sip:bob@home.example SIP/2.0|Via: SIP/2.0/UDP 127.0.0.1:5071;branch=z9hG4bKc1|Max-Forwards: 68|From: "Alice" <sip:alice@home.example>;tag=t1
|To: <sip:bob@home.example>;tag=0123456789abcdef-1|Call-ID: call1|CSeq: 7 ACK|Content-Length: 0|
at 200 peer 1|SIP/2.0 404 No|Via: SIP/2.0/UDP 127.0.0.1:5060;branch=z9hG4bK0123456789abcdef-4|From: "Alice" <sip:alice@home.example>;tag=0123456789abcdef-3
|To: <sip:bob@home.example>;tag=b2|Call-ID: 0123456789abcdef-2|CSeq: 1 INVITE|Content-Length: 0|
~ The first ACK again.
at 0 to 1|SIP/2.0 100 Trying|Via: SIP/2.0/UDP 127.0.0.1:5071;branch=z9hG4bKc1|From: "Alice" <sip:alice@home.example>;tag=t1|To: <sip:bob@home.example>|Call-ID: call1
|CSeq: 7 INVITE|Content-Length: 0|
at 0 to 1|INVITE sip:bob@home.example SIP/2.0|Via: SIP/2.0/UDP 127.0.0.1:5060;branch=z9hG4bK0123456789abcdef-4|Max-Forwards: 67
|From: "Alice" <sip:alice@home.example>;tag=0123456789abcdef-3|To: <sip:bob@home.example>|Call-ID: 0123456789abcdef-2|CSeq: 1 INVITE|Contact: <sip:127.0.0.1:5060>
|P-Asserted-Identity: <sip:alice@home.example>|Content-Length: 0|
at 100 to 1|ACK sip:bob@home.example SIP/2.0|Via: SIP/2.0/UDP 127.0.0.1:5060;branch=z9hG4bK0123456789abcdef-4|Max-Forwards: 70
|From: "Alice" <sip:alice@home.example>;tag=0123456789abcdef-3|To: <sip:bob@home.example>;tag=b1|Call-ID: 0123456789abcdef-2|CSeq: 1 ACK|Content-Length: 0|
at 100 to 1|SIP/2.0 486 Busy|Via: SIP/2.0/UDP 127.0.0.1:5071;branch=z9hG4bKc1|From: "Alice" <sip:alice@home.example>;tag=t1
|To: <sip:bob@home.example>;tag=0123456789abcdef-1|Call-ID: call1|CSeq: 7 INVITE|Content-Length: 0|
at 200 to 1|ACK sip:bob@home.example SIP/2.0|Via: SIP/2.0/UDP 127.0.0.1:5060;branch=z9hG4bK0123456789abcdef-4|Max-Forwards: 70
|From: "Alice" <sip:alice@home.example>;tag=0123456789abcdef-3|To: <sip:bob@home.example>;tag=b1|Call-ID: 0123456789abcdef-2|CSeq: 1 ACK|Content-Length: 0|
~ In a talking call OPTIONS, REFER, REGISTER, and a BYE with an old number.
at 0 peer 1|INVITE sip:bob@home.example SIP/2.0|Via: SIP/2.0/UDP 127.0.0.1:5071;branch=z9hG4bKc1|Max-Forwards: 68|From: "Alice" <sip:alice@home.example>;tag=t1
|To: <sip:bob@home.example>|Call-ID: call1|CSeq: 7 INVITE|Contact: <sip:alice@127.0.0.1:5071>|P-Asserted-Identity: <sip:alice@home.example>|Content-Length: 0|
at 200 peer 1|SIP/2.0 200 OK|Via: SIP/2.0/UDP 127.0.0.1:5060;branch=z9hG4bK0123456789abcdef-4|From: "Alice" <sip:alice@home.example>;tag=0123456789abcdef-3
|To: <sip:bob@home.example>;tag=b1|Call-ID: 0123456789abcdef-2|CSeq: 1 INVITE|Contact: <sip:bob1@127.0.0.1:5071>|Content-Length: 0|
at 300 peer 1|ACK sip:127.0.0.1:5060 SIP/2.0|Via: SIP/2.0/UDP 127.0.0.1:5071;branch=z9hG4bKk1|Max-Forwards: 68|From: "Alice" <sip:alice@home.example>;tag=t1
|To: <sip:bob@home.example>;tag=0123456789abcdef-1|Call-ID: call1|CSeq: 7 ACK|Content-Length: 0|
at 400 peer 1|OPTIONS sip:127.0.0.1:5060 SIP/2.0|Via: SIP/2.0/UDP 127.0.0.1:5071;branch=z9hG4bKo|Max-Forwards: 68|From: "Alice" <sip:alice@home.example>;tag=t1
|To: <sip:bob@home.example>;tag=0123456789abcdef-1|Call-ID: call1|CSeq: 8 OPTIONS|Content-Length: 0|
at 410 peer 1|REFER sip:127.0.0.1:5060 SIP/2.0|Via: SIP/2.0/UDP 127.0.0.1:5071;branch=z9hG4bKr|Max-Forwards: 68|From: "Alice" <sip:alice@home.example>;tag=t1
|To: <sip:bob@home.example>;tag=0123456789abcdef-1|Call-ID: call1|CSeq: 9 REFER|Content-Length: 0|
at 420 peer 1|REGISTER sip:127.0.0.1:5060 SIP/2.0|Via: SIP/2.0/UDP 127.0.0.1:5071;branch=z9hG4bKg|Max-Forwards: 68|From: "Alice" <sip:alice@home.example>;tag=t1
|To: <sip:bob@home.example>;tag=0123456789abcdef-1|Call-ID: call1|CSeq: 10 REGISTER|Content-Length: 0|
at 430 peer 1|BYE sip:127.0.0.1:5060 SIP/2.0|Via: SIP/2.0/UDP 127.0.0.1:5071;branch=z9hG4bKy|Max-Forwards: 68|From: "Alice" <sip:alice@home.example>;tag=t1
|To: <sip:bob@home.example>;tag=0123456789abcdef-1|Call-ID: call1|CSeq: 3 BYE|Content-Length: 0|
~ 200, 403, 481 and 500.
at 0 to 1|SIP/2.0 100 Trying|Via: SIP/2.0/UDP 127.0.0.1:5071;branch=z9hG4bKc1|From: "Alice" <sip:alice@home.example>;tag=t1|To: <sip:bob@home.example>|Call-ID: call1
|CSeq: 7 INVITE|Content-Length: 0|
at 0 to 1|INVITE sip:bob@home.example SIP/2.0|Via: SIP/2.0/UDP 127.0.0.1:5060;branch=z9hG4bK0123456789abcdef-4|Max-Forwards: 67
|From: "Alice" <sip:alice@home.example>;tag=0123456789abcdef-3|To: <sip:bob@home.example>|Call-ID: 0123456789abcdef-2|CSeq: 1 INVITE|Contact: <sip:127.0.0.1:5060>
|P-Asserted-Identity: <sip:alice@home.example>|Content-Length: 0|
at 200 to 1|SIP/2.0 200 OK|Via: SIP/2.0/UDP 127.0.0.1:5071;branch=z9hG4bKc1|From: "Alice" <sip:alice@home.example>;tag=t1
|To: <sip:bob@home.example>;tag=0123456789abcdef-1|Call-ID: call1|CSeq: 7 INVITE|Contact: <sip:127.0.0.1:5060>|Content-Length: 0|
at 300 to 1|ACK sip:bob1@127.0.0.1:5071 SIP/2.0|Via: SIP/2.0/UDP 127.0.0.1:5060;branch=z9hG4bK0123456789abcdef-5|Max-Forwards: 67
|From: "Alice" <sip:alice@home.example>;tag=0123456789abcdef-3|To: <sip:bob@home.example>;tag=b1|Call-ID: 0123456789abcdef-2|CSeq: 1 ACK|Content-Length: 0|
at 400 to 1|SIP/2.0 200 OK|Via: SIP/2.0/UDP 127.0.0.1:5071;branch=z9hG4bKo|From: "Alice" <sip:alice@home.example>;tag=t1|To: <sip:bob@home.example>;tag=0123456789abcdef-1
|Call-ID: call1|CSeq: 8 OPTIONS|Allow: INVITE, ACK, CANCEL, BYE, OPTIONS, REGISTER, REFER|Content-Length: 0|
at 410 to 1|SIP/2.0 403 Forbidden|Via: SIP/2.0/UDP 127.0.0.1:5071;branch=z9hG4bKr|From: "Alice" <sip:alice@home.example>;tag=t1
|To: <sip:bob@home.example>;tag=0123456789abcdef-1|Call-ID: call1|CSeq: 9 REFER|Content-Length: 0|
at 420 to 1|SIP/2.0 481 Call/Transaction Does Not Exist|Via: SIP/2.0/UDP 127.0.0.1:5071;branch=z9hG4bKg|From: "Alice" <sip:alice@home.example>;tag=t1
|To: <sip:bob@home.example>;tag=0123456789abcdef-1|Call-ID: call1|CSeq: 10 REGISTER|Content-Length: 0|
at 430 to 1|SIP/2.0 500 Server Internal Error|Via: SIP/2.0/UDP 127.0.0.1:5071;branch=z9hG4bKy|From: "Alice" <sip:alice@home.example>;tag=t1
|To: <sip:bob@home.example>;tag=0123456789abcdef-1|Call-ID: call1|CSeq: 3 BYE|Content-Length: 0|
~ The peer to which bob diverted says 181.
# [communication-diversion]
# [[communication-diversion.rule]]
# target = "sip:vm@far.example"
at 0 web|PUT /simservs/2 HTTP/1.1|X-3GPP-Asserted-Identity: "sip:bob@home.example"|Content-Type: application/toml|Content-Length: 89|
x5b636f6d6d756e69636174696f6e2d646976657273696f6e5d0a5b5b636f6d6d756e69636174696f6e2d646976657273696f6e2e72756c655d5d0a746172676574203d20227369703a766d406661722e6578616d706c65220a
at 0 peer 1|INVITE sip:bob@home.example SIP/2.0|Via: SIP/2.0/UDP 127.0.0.1:5071;branch=z9hG4bKc1|Max-Forwards: 68|From: "Alice" <sip:alice@home.example>;tag=t1
|To: <sip:bob@home.example>|Call-ID: call1|CSeq: 7 INVITE|Contact: <sip:alice@127.0.0.1:5071>|P-Asserted-Identity: <sip:alice@home.example>|Content-Length: 0|
at 100 peer 2|SIP/2.0 181 Forwarded Again|Via: SIP/2.0/UDP 127.0.0.1:5060;branch=z9hG4bK0123456789abcdef-4|From: "Alice" <sip:alice@home.example>;tag=0123456789abcdef-3
|To: <sip:vm@far.example>;tag=v1|Call-ID: 0123456789abcdef-2|CSeq: 1 INVITE|Contact: <sip:vm@127.0.0.1:5072>|Content-Length: 0|
~ It has the history of this server.
at 0 web|HTTP/1.1 200 OK|Content-Length: 0|Connection: close|
at 0 to 1|SIP/2.0 100 Trying|Via: SIP/2.0/UDP 127.0.0.1:5071;branch=z9hG4bKc1|From: "Alice" <sip:alice@home.example>;tag=t1|To: <sip:bob@home.example>|Call-ID: call1
|CSeq: 7 INVITE|Content-Length: 0|
at 0 to 1|SIP/2.0 181 Call Is Being Forwarded|Via: SIP/2.0/UDP 127.0.0.1:5071;branch=z9hG4bKc1|From: "Alice" <sip:alice@home.example>;tag=t1
|To: <sip:bob@home.example>;tag=0123456789abcdef-1|Call-ID: call1|CSeq: 7 INVITE|Contact: <sip:127.0.0.1:5060>|History-Info: <sip:bob@home.example>;index=1
|History-Info: <sip:vm@far.example;cause=302>;index=1.1|Content-Length: 0|
at 0 to 2|INVITE sip:vm@far.example;cause=302 SIP/2.0|Via: SIP/2.0/UDP 127.0.0.1:5060;branch=z9hG4bK0123456789abcdef-4|Max-Forwards: 67
|From: "Alice" <sip:alice@home.example>;tag=0123456789abcdef-3|To: <sip:vm@far.example>|Call-ID: 0123456789abcdef-2|CSeq: 1 INVITE|Contact: <sip:127.0.0.1:5060>
|P-Asserted-Identity: <sip:alice@home.example>|History-Info: <sip:bob@home.example>;index=1|History-Info: <sip:vm@far.example;cause=302>;index=1.1|Content-Length: 0|
at 100 to 1|SIP/2.0 181 Forwarded Again|Via: SIP/2.0/UDP 127.0.0.1:5071;branch=z9hG4bKc1|From: "Alice" <sip:alice@home.example>;tag=t1
|To: <sip:bob@home.example>;tag=0123456789abcdef-1|Call-ID: call1|CSeq: 7 INVITE|Contact: <sip:127.0.0.1:5060>|History-Info: <sip:bob@home.example>;index=1
|History-Info: <sip:vm@far.example;cause=302>;index=1.1|Content-Length: 0|
~ Bob and carol divert; bob does not want to be shown to the caller.
# [communication-diversion]
# [[communication-diversion.rule]]
# reveal-served-user-identity-to-caller = false
# target = "sip:carol@home.example"
at 0 web|PUT /simservs/2 HTTP/1.1|X-3GPP-Asserted-Identity: "sip:bob@home.example"|Content-Type: application/toml|Content-Length: 139|
x5b636f6d6d756e69636174696f6e2d646976657273696f6e5d0a5b5b636f6d6d756e69636174696f6e2d646976657273696f6e2e72756c655d5d0a72657665616c2d7365727665642d757365722d696\
4656e746974792d746f2d63616c6c6572203d2066616c73650a746172676574203d20227369703a6361726f6c40686f6d652e6578616d706c65220a
# [communication-diversion]
# [[communication-diversion.rule]]
# target = "sip:vm@far.example"
at 0 web|PUT /simservs/3 HTTP/1.1|X-3GPP-Asserted-Identity: "sip:carol@home.example"|Content-Type: application/toml|Content-Length: 89|
x5b636f6d6d756e69636174696f6e2d646976657273696f6e5d0a5b5b636f6d6d756e69636174696f6e2d646976657273696f6e2e72756c655d5d0a746172676574203d20227369703a766d406661722e6578616d706c65220a
at 0 peer 1|INVITE sip:bob@home.example SIP/2.0|Via: SIP/2.0/UDP 127.0.0.1:5071;branch=z9hG4bKc1|Max-Forwards: 68|From: "Alice" <sip:alice@home.example>;tag=t1
|To: <sip:bob@home.example>|Call-ID: call1|CSeq: 7 INVITE|Contact: <sip:alice@127.0.0.1:5071>|P-Asserted-Identity: <sip:alice@home.example>|Content-Length: 0|
~ His entry is marked in the 181 of his own diversion alone.
at 0 web|HTTP/1.1 200 OK|Content-Length: 0|Connection: close|
at 0 web|HTTP/1.1 200 OK|Content-Length: 0|Connection: close|
at 0 to 1|SIP/2.0 100 Trying|Via: SIP/2.0/UDP 127.0.0.1:5071;branch=z9hG4bKc1|From: "Alice" <sip:alice@home.example>;tag=t1|To: <sip:bob@home.example>|Call-ID: call1
|CSeq: 7 INVITE|Content-Length: 0|
at 0 to 1|SIP/2.0 181 Call Is Being Forwarded|Via: SIP/2.0/UDP 127.0.0.1:5071;branch=z9hG4bKc1|From: "Alice" <sip:alice@home.example>;tag=t1
|To: <sip:bob@home.example>;tag=0123456789abcdef-1|Call-ID: call1|CSeq: 7 INVITE|Contact: <sip:127.0.0.1:5060>
|History-Info: <sip:bob@home.example?Privacy=history>;index=1|History-Info: <sip:carol@home.example;cause=302>;index=1.1|Content-Length: 0|
at 0 to 1|SIP/2.0 181 Call Is Being Forwarded|Via: SIP/2.0/UDP 127.0.0.1:5071;branch=z9hG4bKc1|From: "Alice" <sip:alice@home.example>;tag=t1
|To: <sip:bob@home.example>;tag=0123456789abcdef-1|Call-ID: call1|CSeq: 7 INVITE|Contact: <sip:127.0.0.1:5060>|History-Info: <sip:bob@home.example>;index=1
|History-Info: <sip:carol@home.example;cause=302>;index=1.1|History-Info: <sip:vm@far.example;cause=302>;index=1.1.1|Content-Length: 0|
at 0 to 2|INVITE sip:vm@far.example;cause=302 SIP/2.0|Via: SIP/2.0/UDP 127.0.0.1:5060;branch=z9hG4bK0123456789abcdef-4|Max-Forwards: 67
|From: "Alice" <sip:alice@home.example>;tag=0123456789abcdef-3|To: <sip:vm@far.example>|Call-ID: 0123456789abcdef-2|CSeq: 1 INVITE|Contact: <sip:127.0.0.1:5060>
|P-Asserted-Identity: <sip:alice@home.example>|History-Info: <sip:bob@home.example>;index=1|History-Info: <sip:carol@home.example;cause=302>;index=1.1
|History-Info: <sip:vm@far.example;cause=302>;index=1.1.1|Content-Length: 0|
~ The core asks for the services of the originating user alone; bob would divert.
# [communication-diversion]
# [[communication-diversion.rule]]
# target = "sip:carol@home.example"
at 0 web|PUT /simservs/2 HTTP/1.1|X-3GPP-Asserted-Identity: "sip:bob@home.example"|Content-Type: application/toml|Content-Length: 93|
x5b636f6d6d756e69636174696f6e2d646976657273696f6e5d0a5b5b636f6d6d756e69636174696f6e2d646976657273696f6e2e72756c655d5d0a746172676574203d20227369703a6361726f6c406\
86f6d652e6578616d706c65220a
# [communication-diversion]
# [[communication-diversion.rule]]
# target = "sip:vm@far.example"
at 0 web|PUT /simservs/3 HTTP/1.1|X-3GPP-Asserted-Identity: "sip:carol@home.example"|Content-Type: application/toml|Content-Length: 89|
x5b636f6d6d756e69636174696f6e2d646976657273696f6e5d0a5b5b636f6d6d756e69636174696f6e2d646976657273696f6e2e72756c655d5d0a746172676574203d20227369703a766d406661722e6578616d706c65220a
at 0 peer 1|INVITE sip:bob@home.example SIP/2.0|Via: SIP/2.0/UDP 127.0.0.1:5071;branch=z9hG4bKc1|Max-Forwards: 68|From: "Alice" <sip:alice@home.example>;tag=t1
|To: <sip:bob@home.example>|Call-ID: call1|CSeq: 7 INVITE|Contact: <sip:alice@127.0.0.1:5071>|P-Asserted-Identity: <sip:alice@home.example>
|P-Served-User: <sip:alice@home.example>;sescase=orig|Content-Length: 0|
~ His services are not applied.
at 0 web|HTTP/1.1 200 OK|Content-Length: 0|Connection: close|
at 0 web|HTTP/1.1 200 OK|Content-Length: 0|Connection: close|
at 0 to 1|SIP/2.0 100 Trying|Via: SIP/2.0/UDP 127.0.0.1:5071;branch=z9hG4bKc1|From: "Alice" <sip:alice@home.example>;tag=t1|To: <sip:bob@home.example>|Call-ID: call1
|CSeq: 7 INVITE|Content-Length: 0|
at 0 to 1|INVITE sip:bob@home.example SIP/2.0|Via: SIP/2.0/UDP 127.0.0.1:5060;branch=z9hG4bK0123456789abcdef-4|Max-Forwards: 67
|From: "Alice" <sip:alice@home.example>;tag=0123456789abcdef-3|To: <sip:bob@home.example>|Call-ID: 0123456789abcdef-2|CSeq: 1 INVITE|Contact: <sip:127.0.0.1:5060>
|P-Asserted-Identity: <sip:alice@home.example>|Content-Length: 0|
~ It asks for those of the terminating user alone, bob; carol would divert too.
# [communication-diversion]
# [[communication-diversion.rule]]
# target = "sip:carol@home.example"
at 0 web|PUT /simservs/2 HTTP/1.1|X-3GPP-Asserted-Identity: "sip:bob@home.example"|Content-Type: application/toml|Content-Length: 93|
x5b636f6d6d756e69636174696f6e2d646976657273696f6e5d0a5b5b636f6d6d756e69636174696f6e2d646976657273696f6e2e72756c655d5d0a746172676574203d20227369703a6361726f6c406\
86f6d652e6578616d706c65220a
# [communication-diversion]
# [[communication-diversion.rule]]
# target = "sip:vm@far.example"
at 0 web|PUT /simservs/3 HTTP/1.1|X-3GPP-Asserted-Identity: "sip:carol@home.example"|Content-Type: application/toml|Content-Length: 89|
x5b636f6d6d756e69636174696f6e2d646976657273696f6e5d0a5b5b636f6d6d756e69636174696f6e2d646976657273696f6e2e72756c655d5d0a746172676574203d20227369703a766d406661722e6578616d706c65220a
at 0 peer 1|INVITE sip:bob@home.example SIP/2.0|Via: SIP/2.0/UDP 127.0.0.1:5071;branch=z9hG4bKc1|Max-Forwards: 68|From: "Alice" <sip:alice@home.example>;tag=t1
|To: <sip:bob@home.example>|Call-ID: call1|CSeq: 7 INVITE|Contact: <sip:alice@127.0.0.1:5071>|P-Asserted-Identity: <sip:alice@home.example>
|P-Served-User: <sip:bob@home.example>;sescase=term|Content-Length: 0|
~ His are applied, and carol, to whom he diverts, has none of her own here.
at 0 web|HTTP/1.1 200 OK|Content-Length: 0|Connection: close|
at 0 web|HTTP/1.1 200 OK|Content-Length: 0|Connection: close|
at 0 to 1|SIP/2.0 100 Trying|Via: SIP/2.0/UDP 127.0.0.1:5071;branch=z9hG4bKc1|From: "Alice" <sip:alice@home.example>;tag=t1|To: <sip:bob@home.example>|Call-ID: call1
|CSeq: 7 INVITE|Content-Length: 0|
at 0 to 1|SIP/2.0 181 Call Is Being Forwarded|Via: SIP/2.0/UDP 127.0.0.1:5071;branch=z9hG4bKc1|From: "Alice" <sip:alice@home.example>;tag=t1
|To: <sip:bob@home.example>;tag=0123456789abcdef-1|Call-ID: call1|CSeq: 7 INVITE|Contact: <sip:127.0.0.1:5060>|History-Info: <sip:bob@home.example>;index=1
|History-Info: <sip:carol@home.example;cause=302>;index=1.1|Content-Length: 0|
at 0 to 1|INVITE sip:carol@home.example;cause=302 SIP/2.0|Via: SIP/2.0/UDP 127.0.0.1:5060;branch=z9hG4bK0123456789abcdef-4|Max-Forwards: 67
|From: "Alice" <sip:alice@home.example>;tag=0123456789abcdef-3|To: <sip:carol@home.example>|Call-ID: 0123456789abcdef-2|CSeq: 1 INVITE|Contact: <sip:127.0.0.1:5060>
|P-Asserted-Identity: <sip:alice@home.example>|History-Info: <sip:bob@home.example>;index=1|History-Info: <sip:carol@home.example;cause=302>;index=1.1|Content-Length: 0|
~ It asks for those of nobody who is served here.
at 0 peer 1|INVITE sip:bob@home.example SIP/2.0|Via: SIP/2.0/UDP 127.0.0.1:5071;branch=z9hG4bKc1|Max-Forwards: 68|From: "Alice" <sip:alice@home.example>;tag=t1
|To: <sip:bob@home.example>|Call-ID: call1|CSeq: 7 INVITE|Contact: <sip:alice@127.0.0.1:5071>|P-Asserted-Identity: <sip:alice@home.example>
|P-Served-User: <sip:nobody@home.example>;sescase=term|Content-Length: 0|
~ 404.
at 0 to 1|SIP/2.0 100 Trying|Via: SIP/2.0/UDP 127.0.0.1:5071;branch=z9hG4bKc1|From: "Alice" <sip:alice@home.example>;tag=t1|To: <sip:bob@home.example>|Call-ID: call1
|CSeq: 7 INVITE|Content-Length: 0|
at 0 to 1|SIP/2.0 404 Not Found|Via: SIP/2.0/UDP 127.0.0.1:5071;branch=z9hG4bKc1|From: "Alice" <sip:alice@home.example>;tag=t1
|To: <sip:bob@home.example>;tag=0123456789abcdef-1|Call-ID: call1|CSeq: 7 INVITE|Content-Length: 0|
~ Two Routes stand behind that of this server.
at 0 peer 1|INVITE sip:bob@home.example SIP/2.0|Via: SIP/2.0/UDP 127.0.0.1:5071;branch=z9hG4bKc1|Max-Forwards: 68|From: "Alice" <sip:alice@home.example>;tag=t1
|To: <sip:bob@home.example>|Call-ID: call1|CSeq: 7 INVITE|Contact: <sip:alice@127.0.0.1:5071>|P-Asserted-Identity: <sip:alice@home.example>
|Route: <sip:127.0.0.1:5060;lr>, <sip:edge@far.example;lr>, <sip:two@x>|Content-Length: 0|
~ They stay, and the first says to which peer the INVITE goes (RFC 3261 section 16.6).
at 0 to 1|SIP/2.0 100 Trying|Via: SIP/2.0/UDP 127.0.0.1:5071;branch=z9hG4bKc1|From: "Alice" <sip:alice@home.example>;tag=t1|To: <sip:bob@home.example>|Call-ID: call1
|CSeq: 7 INVITE|Content-Length: 0|
at 0 to 2|INVITE sip:bob@home.example SIP/2.0|Via: SIP/2.0/UDP 127.0.0.1:5060;branch=z9hG4bK0123456789abcdef-4|Route: <sip:edge@far.example;lr>|Route: <sip:two@x>
|Max-Forwards: 67|From: "Alice" <sip:alice@home.example>;tag=0123456789abcdef-3|To: <sip:bob@home.example>|Call-ID: 0123456789abcdef-2|CSeq: 1 INVITE
|Contact: <sip:127.0.0.1:5060>|P-Asserted-Identity: <sip:alice@home.example>|Content-Length: 0|
~ Bob diverts to a number.
# [communication-diversion]
# [[communication-diversion.rule]]
# target = "tel:+4977"
at 0 web|PUT /simservs/2 HTTP/1.1|X-3GPP-Asserted-Identity: "sip:bob@home.example"|Content-Type: application/toml|Content-Length: 80|
x5b636f6d6d756e69636174696f6e2d646976657273696f6e5d0a5b5b636f6d6d756e69636174696f6e2d646976657273696f6e2e72756c655d5d0a746172676574203d202274656c3a2b34393737220a
at 0 peer 1|INVITE sip:bob@home.example SIP/2.0|Via: SIP/2.0/UDP 127.0.0.1:5071;branch=z9hG4bKc1|Max-Forwards: 68|From: "Alice" <sip:alice@home.example>;tag=t1
|To: <sip:bob@home.example>|Call-ID: call1|CSeq: 7 INVITE|Contact: <sip:alice@127.0.0.1:5071>|P-Asserted-Identity: <sip:alice@home.example>|Content-Length: 0|
~ The number as a user of this domain (RFC 3261 section 19.1.6).
at 0 web|HTTP/1.1 200 OK|Content-Length: 0|Connection: close|
at 0 to 1|SIP/2.0 100 Trying|Via: SIP/2.0/UDP 127.0.0.1:5071;branch=z9hG4bKc1|From: "Alice" <sip:alice@home.example>;tag=t1|To: <sip:bob@home.example>|Call-ID: call1
|CSeq: 7 INVITE|Content-Length: 0|
at 0 to 1|SIP/2.0 181 Call Is Being Forwarded|Via: SIP/2.0/UDP 127.0.0.1:5071;branch=z9hG4bKc1|From: "Alice" <sip:alice@home.example>;tag=t1
|To: <sip:bob@home.example>;tag=0123456789abcdef-1|Call-ID: call1|CSeq: 7 INVITE|Contact: <sip:127.0.0.1:5060>|History-Info: <sip:bob@home.example>;index=1
|History-Info: <sip:+4977@home.example;user=phone;cause=302>;index=1.1|Content-Length: 0|
at 0 to 1|INVITE sip:+4977@home.example;user=phone;cause=302 SIP/2.0|Via: SIP/2.0/UDP 127.0.0.1:5060;branch=z9hG4bK0123456789abcdef-4|Max-Forwards: 67
|From: "Alice" <sip:alice@home.example>;tag=0123456789abcdef-3|To: <sip:+4977@home.example;user=phone>|Call-ID: 0123456789abcdef-2|CSeq: 1 INVITE
|Contact: <sip:127.0.0.1:5060>|P-Asserted-Identity: <sip:alice@home.example>|History-Info: <sip:bob@home.example>;index=1
|History-Info: <sip:+4977@home.example;user=phone;cause=302>;index=1.1|Content-Length: 0|
~ Bob does not want to be shown to his target or his target to the caller.
# [communication-diversion]
# [[communication-diversion.rule]]
# reveal-identity-to-target = false
# reveal-identity-to-caller = false
# target = "sip:vm@far.example"
at 0 web|PUT /simservs/2 HTTP/1.1|X-3GPP-Asserted-Identity: "sip:bob@home.example"|Content-Type: application/toml|Content-Length: 157|
x5b636f6d6d756e69636174696f6e2d646976657273696f6e5d0a5b5b636f6d6d756e69636174696f6e2d646976657273696f6e2e72756c655d5d0a72657665616c2d6964656e746974792d746f2d746\
172676574203d2066616c73650a72657665616c2d6964656e746974792d746f2d63616c6c6572203d2066616c73650a746172676574203d20227369703a766d406661722e6578616d706c65220a
at 0 peer 1|INVITE sip:bob@home.example SIP/2.0|Via: SIP/2.0/UDP 127.0.0.1:5071;branch=z9hG4bKc1|Max-Forwards: 68|From: "Alice" <sip:alice@home.example>;tag=t1
|To: <sip:bob@home.example>|Call-ID: call1|CSeq: 7 INVITE|Contact: <sip:alice@127.0.0.1:5071>|P-Asserted-Identity: <sip:alice@home.example>|Content-Length: 0|
~ His entry is hidden from his target; in the 181 to a trusted peer both are marked.
at 0 web|HTTP/1.1 200 OK|Content-Length: 0|Connection: close|
at 0 to 1|SIP/2.0 100 Trying|Via: SIP/2.0/UDP 127.0.0.1:5071;branch=z9hG4bKc1|From: "Alice" <sip:alice@home.example>;tag=t1|To: <sip:bob@home.example>|Call-ID: call1
|CSeq: 7 INVITE|Content-Length: 0|
at 0 to 1|SIP/2.0 181 Call Is Being Forwarded|Via: SIP/2.0/UDP 127.0.0.1:5071;branch=z9hG4bKc1|From: "Alice" <sip:alice@home.example>;tag=t1
|To: <sip:bob@home.example>;tag=0123456789abcdef-1|Call-ID: call1|CSeq: 7 INVITE|Contact: <sip:127.0.0.1:5060>
|History-Info: <sip:bob@home.example?Privacy=history>;index=1|History-Info: <sip:vm@far.example;cause=302?Privacy=history>;index=1.1|Content-Length: 0|
at 0 to 2|INVITE sip:vm@far.example;cause=302 SIP/2.0|Via: SIP/2.0/UDP 127.0.0.1:5060;branch=z9hG4bK0123456789abcdef-4|Max-Forwards: 67
|From: "Alice" <sip:alice@home.example>;tag=0123456789abcdef-3|To: <sip:vm@far.example>|Call-ID: 0123456789abcdef-2|CSeq: 1 INVITE|Contact: <sip:127.0.0.1:5060>
|P-Asserted-Identity: <sip:alice@home.example>|History-Info: <sip:anonymous@anonymous.invalid>;index=1|History-Info: <sip:vm@far.example;cause=302>;index=1.1
|Content-Length: 0|
~ The caller asks for privacy of the history.
# [communication-diversion]
# [[communication-diversion.rule]]
# target = "sip:vm@far.example"
at 0 web|PUT /simservs/2 HTTP/1.1|X-3GPP-Asserted-Identity: "sip:bob@home.example"|Content-Type: application/toml|Content-Length: 89|
x5b636f6d6d756e69636174696f6e2d646976657273696f6e5d0a5b5b636f6d6d756e69636174696f6e2d646976657273696f6e2e72756c655d5d0a746172676574203d20227369703a766d406661722e6578616d706c65220a
at 0 peer 1|INVITE sip:bob@home.example SIP/2.0|Via: SIP/2.0/UDP 127.0.0.1:5071;branch=z9hG4bKc1|Max-Forwards: 68|From: "Alice" <sip:alice@home.example>;tag=t1
|To: <sip:bob@home.example>|Call-ID: call1|CSeq: 7 INVITE|Contact: <sip:alice@127.0.0.1:5071>|P-Asserted-Identity: <sip:alice@home.example>|Privacy: history
|History-Info: "X" <sip:a@b.example;cause=486?Reason=x>;foo=1;index=1;bar|Content-Length: 0|
~ It is hidden as a whole from a peer that is not trusted.
at 0 web|HTTP/1.1 200 OK|Content-Length: 0|Connection: close|
at 0 to 1|SIP/2.0 100 Trying|Via: SIP/2.0/UDP 127.0.0.1:5071;branch=z9hG4bKc1|From: "Alice" <sip:alice@home.example>;tag=t1|To: <sip:bob@home.example>|Call-ID: call1
|CSeq: 7 INVITE|Content-Length: 0|
at 0 to 1|SIP/2.0 181 Call Is Being Forwarded|Via: SIP/2.0/UDP 127.0.0.1:5071;branch=z9hG4bKc1|From: "Alice" <sip:alice@home.example>;tag=t1
|To: <sip:bob@home.example>;tag=0123456789abcdef-1|Call-ID: call1|CSeq: 7 INVITE|Contact: <sip:127.0.0.1:5060>
|History-Info: <sip:a@b.example;cause=486?Reason=x>;index=1;foo=1;bar|History-Info: <sip:vm@far.example;cause=302>;index=1.1|Content-Length: 0|
at 0 to 2|INVITE sip:vm@far.example;cause=302 SIP/2.0|Via: SIP/2.0/UDP 127.0.0.1:5060;branch=z9hG4bK0123456789abcdef-4|Max-Forwards: 67
|From: "Alice" <sip:alice@home.example>;tag=0123456789abcdef-3|To: <sip:vm@far.example>|Call-ID: 0123456789abcdef-2|CSeq: 1 INVITE|Contact: <sip:127.0.0.1:5060>
|P-Asserted-Identity: <sip:alice@home.example>|History-Info: <sip:anonymous@anonymous.invalid;cause=486>;index=1;foo=1;bar
|History-Info: <sip:anonymous@anonymous.invalid;cause=302>;index=1.1|Content-Length: 0|
~ Neither of them has the presentation of the other's identity.
# [terminating-identity-presentation]
# active = false
at 0 web|PUT /simservs/1 HTTP/1.1|X-3GPP-Asserted-Identity: "sip:alice@home.example"|Content-Type: application/toml|Content-Length: 51|
x5b7465726d696e6174696e672d6964656e746974792d70726573656e746174696f6e5d0a616374697665203d2066616c73650a
# [originating-identity-presentation]
# active = false
at 0 web|PUT /simservs/2 HTTP/1.1|X-3GPP-Asserted-Identity: "sip:bob@home.example"|Content-Type: application/toml|Content-Length: 51|
x5b6f726967696e6174696e672d6964656e746974792d70726573656e746174696f6e5d0a616374697665203d2066616c73650a
at 0 peer 1|INVITE sip:bob@home.example SIP/2.0|Via: SIP/2.0/UDP 127.0.0.1:5071;branch=z9hG4bKc1|Max-Forwards: 68|From: "Alice" <sip:alice@home.example>;tag=t1
|To: <sip:bob@home.example>|Call-ID: call1|CSeq: 7 INVITE|Contact: <sip:alice@127.0.0.1:5071>|P-Asserted-Identity: <sip:alice@home.example>|Content-Length: 0|
at 200 peer 1|SIP/2.0 200 OK|Via: SIP/2.0/UDP 127.0.0.1:5060;branch=z9hG4bK0123456789abcdef-4|From: "Alice" <sip:alice@home.example>;tag=0123456789abcdef-3
|To: <sip:bob@home.example>;tag=b1|Call-ID: 0123456789abcdef-2|CSeq: 1 INVITE|Contact: <sip:bob1@127.0.0.1:5071>|P-Asserted-Identity: <sip:bob@home.example>|Subject: s
|User-Agent: u|Content-Length: 0|
~ Neither is shown an identity.
at 0 web|HTTP/1.1 200 OK|Content-Length: 0|Connection: close|
at 0 web|HTTP/1.1 200 OK|Content-Length: 0|Connection: close|
at 0 to 1|SIP/2.0 100 Trying|Via: SIP/2.0/UDP 127.0.0.1:5071;branch=z9hG4bKc1|From: "Alice" <sip:alice@home.example>;tag=t1|To: <sip:bob@home.example>|Call-ID: call1
|CSeq: 7 INVITE|Content-Length: 0|
at 0 to 1|INVITE sip:bob@home.example SIP/2.0|Via: SIP/2.0/UDP 127.0.0.1:5060;branch=z9hG4bK0123456789abcdef-4|Max-Forwards: 67
|From: "Alice" <sip:alice@home.example>;tag=0123456789abcdef-3|To: <sip:bob@home.example>|Call-ID: 0123456789abcdef-2|CSeq: 1 INVITE|Contact: <sip:127.0.0.1:5060>
|Content-Length: 0|
at 200 to 1|SIP/2.0 200 OK|Via: SIP/2.0/UDP 127.0.0.1:5071;branch=z9hG4bKc1|From: "Alice" <sip:alice@home.example>;tag=t1
|To: <sip:bob@home.example>;tag=0123456789abcdef-1|Call-ID: call1|CSeq: 7 INVITE|Contact: <sip:127.0.0.1:5060>|Subject: s|User-Agent: u|Content-Length: 0|
~ Bob's record restricts him; the caller's peer is trusted.
# [terminating-identity-presentation-restriction]
# mode = "permanent"
at 0 web|PUT /simservs/2 HTTP/1.1|X-3GPP-Asserted-Identity: "sip:bob@home.example"|Content-Type: application/toml|Content-Length: 67|
x5b7465726d696e6174696e672d6964656e746974792d70726573656e746174696f6e2d7265737472696374696f6e5d0a6d6f6465203d20227065726d616e656e74220a
at 0 peer 1|INVITE sip:bob@home.example SIP/2.0|Via: SIP/2.0/UDP 127.0.0.1:5071;branch=z9hG4bKc1|Max-Forwards: 68|From: "Alice" <sip:alice@home.example>;tag=t1
|To: <sip:bob@home.example>|Call-ID: call1|CSeq: 7 INVITE|Contact: <sip:alice@127.0.0.1:5071>|P-Asserted-Identity: <sip:alice@home.example>|Content-Length: 0|
at 200 peer 1|SIP/2.0 200 OK|Via: SIP/2.0/UDP 127.0.0.1:5060;branch=z9hG4bK0123456789abcdef-4|From: "Alice" <sip:alice@home.example>;tag=0123456789abcdef-3
|To: <sip:bob@home.example>;tag=b1|Call-ID: 0123456789abcdef-2|CSeq: 1 INVITE|Contact: <sip:bob1@127.0.0.1:5071>|P-Asserted-Identity: <sip:bob@home.example>|Subject: s
|User-Agent: u|Privacy: none;user|Content-Length: 0|
~ His identity goes on, with Privacy.
at 0 web|HTTP/1.1 200 OK|Content-Length: 0|Connection: close|
at 0 to 1|SIP/2.0 100 Trying|Via: SIP/2.0/UDP 127.0.0.1:5071;branch=z9hG4bKc1|From: "Alice" <sip:alice@home.example>;tag=t1|To: <sip:bob@home.example>|Call-ID: call1
|CSeq: 7 INVITE|Content-Length: 0|
at 0 to 1|INVITE sip:bob@home.example SIP/2.0|Via: SIP/2.0/UDP 127.0.0.1:5060;branch=z9hG4bK0123456789abcdef-4|Max-Forwards: 67
|From: "Alice" <sip:alice@home.example>;tag=0123456789abcdef-3|To: <sip:bob@home.example>|Call-ID: 0123456789abcdef-2|CSeq: 1 INVITE|Contact: <sip:127.0.0.1:5060>
|P-Asserted-Identity: <sip:alice@home.example>|Content-Length: 0|
at 200 to 1|SIP/2.0 200 OK|Via: SIP/2.0/UDP 127.0.0.1:5071;branch=z9hG4bKc1|From: "Alice" <sip:alice@home.example>;tag=t1
|To: <sip:bob@home.example>;tag=0123456789abcdef-1|Call-ID: call1|CSeq: 7 INVITE|Contact: <sip:127.0.0.1:5060>|P-Asserted-Identity: <sip:bob@home.example>
|Privacy: user;id|Content-Length: 0|
~ The caller's peer is not trusted.
# [terminating-identity-presentation-restriction]
# mode = "permanent"
at 0 web|PUT /simservs/2 HTTP/1.1|X-3GPP-Asserted-Identity: "sip:bob@home.example"|Content-Type: application/toml|Content-Length: 67|
x5b7465726d696e6174696e672d6964656e746974792d70726573656e746174696f6e2d7265737472696374696f6e5d0a6d6f6465203d20227065726d616e656e74220a
at 0 peer 2|INVITE sip:bob@home.example SIP/2.0|Via: SIP/2.0/UDP 127.0.0.1:5072;branch=z9hG4bKc1|Max-Forwards: 68|From: "Erin" <sip:erin@other.example>;tag=t1
|To: <sip:bob@home.example>|Call-ID: call1|CSeq: 7 INVITE|Contact: <sip:erin@127.0.0.1:5072>|P-Asserted-Identity: <sip:erin@other.example>|Privacy: id|Content-Length: 0|
at 200 peer 1|SIP/2.0 200 OK|Via: SIP/2.0/UDP 127.0.0.1:5060;branch=z9hG4bK0123456789abcdef-4|From: "Anonymous" <sip:anonymous@anonymous.invalid>;tag=0123456789abcdef-3
|To: <sip:bob@home.example>;tag=b1|Call-ID: 0123456789abcdef-2|CSeq: 1 INVITE|Contact: <sip:bob1@127.0.0.1:5071>|P-Asserted-Identity: <sip:bob@home.example>|Subject: s
|User-Agent: u|Content-Length: 0|
~ It does not.
at 0 web|HTTP/1.1 200 OK|Content-Length: 0|Connection: close|
at 0 to 2|SIP/2.0 100 Trying|Via: SIP/2.0/UDP 127.0.0.1:5072;branch=z9hG4bKc1|From: "Erin" <sip:erin@other.example>;tag=t1|To: <sip:bob@home.example>|Call-ID: call1
|CSeq: 7 INVITE|Content-Length: 0|
at 0 to 1|INVITE sip:bob@home.example SIP/2.0|Via: SIP/2.0/UDP 127.0.0.1:5060;branch=z9hG4bK0123456789abcdef-4|Max-Forwards: 67
|From: "Anonymous" <sip:anonymous@anonymous.invalid>;tag=0123456789abcdef-3|To: <sip:bob@home.example>|Call-ID: 0123456789abcdef-2|CSeq: 1 INVITE
|Contact: <sip:127.0.0.1:5060>|Privacy: id|Content-Length: 0|
at 200 to 2|SIP/2.0 200 OK|Via: SIP/2.0/UDP 127.0.0.1:5072;branch=z9hG4bKc1|From: "Erin" <sip:erin@other.example>;tag=t1|To: <sip:bob@home.example>;tag=0123456789abcdef-1
|Call-ID: call1|CSeq: 7 INVITE|Contact: <sip:127.0.0.1:5060>|Content-Length: 0|
"#;

#[test]
fn late(rt: HostRuntime) {
    assert_right(&rt, "LATE", wrong_run(rt.alloc(), LATE));
}
