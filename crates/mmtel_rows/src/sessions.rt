//! Session timers (RFC 4028): which sessions are refused, and calls whose session is not refreshed.
//!
//! Each is a script and its expected listing, in the form of `cases`.

use crate::asserting::assert_right;
use crate::cases::wrong_run;

/// The runs.
const SESSIONS: &[u8] = br#"~ Erin asks for a session of 89 seconds, by the compact name.
=further:extension timer;
at 0 peer 1|INVITE sip:bob@far.example SIP/2.0|Via: SIP/2.0/UDP 127.0.0.1:5071;branch=z9hG4bKa1|Max-Forwards: 68|From: "Erin" <sip:erin@other.example>;tag=a
|To: <sip:bob@far.example>|Call-ID: c1|CSeq: 7 INVITE|Contact: <sip:erin@127.0.0.1:5071>|P-Asserted-Identity: <sip:erin@other.example>|Privacy: id|x: 89
|Content-Length: 0|
~ It is too short: 422 with the least interval, and no 100 (RFC 4028 section 6).
at 0 to 1|SIP/2.0 422 Session Interval Too Small|Via: SIP/2.0/UDP 127.0.0.1:5071;branch=z9hG4bKa1|From: "Erin" <sip:erin@other.example>;tag=a
|To: <sip:bob@far.example>;tag=0123456789abcdef-1|Call-ID: c1|CSeq: 7 INVITE|Min-SE: 90|Content-Length: 0|
~ She asks for one of 90 seconds.
=further:extension timer;
at 0 peer 1|INVITE sip:bob@far.example SIP/2.0|Via: SIP/2.0/UDP 127.0.0.1:5071;branch=z9hG4bKa1|Max-Forwards: 68|From: "Erin" <sip:erin@other.example>;tag=a
|To: <sip:bob@far.example>|Call-ID: c1|CSeq: 7 INVITE|Contact: <sip:erin@127.0.0.1:5071>|P-Asserted-Identity: <sip:erin@other.example>|Privacy: id|x: 90
|Content-Length: 0|
~ It is offered with that line.
at 0 to 1|SIP/2.0 100 Trying|Via: SIP/2.0/UDP 127.0.0.1:5071;branch=z9hG4bKa1|From: "Erin" <sip:erin@other.example>;tag=a|To: <sip:bob@far.example>|Call-ID: c1
|CSeq: 7 INVITE|Content-Length: 0|
at 0 to 2|INVITE sip:bob@far.example SIP/2.0|Via: SIP/2.0/UDP 127.0.0.1:5060;branch=z9hG4bK0123456789abcdef-4|Max-Forwards: 67
|From: "Anonymous" <sip:anonymous@anonymous.invalid>;tag=0123456789abcdef-3|To: <sip:bob@far.example>|Call-ID: 0123456789abcdef-2|CSeq: 1 INVITE
|Contact: <sip:127.0.0.1:5060>|Session-Expires: 90|Content-Length: 0|
~ Two lines; a word that refreshes nothing; and a session too short, of a request that requires timers.
=further:extension timer;
at 0 peer 1|INVITE sip:bob@home.example SIP/2.0|Via: SIP/2.0/UDP 127.0.0.1:5071;branch=z9hG4bKc1|Max-Forwards: 68|From: "Alice" <sip:alice@home.example>;tag=t1
|To: <sip:bob@home.example>|Call-ID: call1|CSeq: 7 INVITE|Contact: <sip:alice@127.0.0.1:5071>|P-Asserted-Identity: <sip:alice@home.example>|x: 90|x: 90
|Content-Length: 0|
at 10 peer 1|INVITE sip:bob@home.example SIP/2.0|Via: SIP/2.0/UDP 127.0.0.1:5071;branch=z9hG4bKc2|Max-Forwards: 68|From: "Alice" <sip:alice@home.example>;tag=t2
|To: <sip:bob@home.example>|Call-ID: call2|CSeq: 7 INVITE|Contact: <sip:alice@127.0.0.1:5071>|P-Asserted-Identity: <sip:alice@home.example>|x: 90;refresher=me
|Content-Length: 0|
at 20 peer 1|INVITE sip:bob@home.example SIP/2.0|Via: SIP/2.0/UDP 127.0.0.1:5071;branch=z9hG4bKc3|Max-Forwards: 68|From: "Alice" <sip:alice@home.example>;tag=t3
|To: <sip:bob@home.example>|Call-ID: call3|CSeq: 7 INVITE|Contact: <sip:alice@127.0.0.1:5071>|P-Asserted-Identity: <sip:alice@home.example>|Require: timer
|x: 89;refresher=uac|Content-Length: 0|
~ The first two are refused as malformed; `timer` is supported, and the third is too short.
at 0 to 1|SIP/2.0 400 Bad Request|Via: SIP/2.0/UDP 127.0.0.1:5071;branch=z9hG4bKc1|From: "Alice" <sip:alice@home.example>;tag=t1
|To: <sip:bob@home.example>;tag=0123456789abcdef-1|Call-ID: call1|CSeq: 7 INVITE|Content-Length: 0|
at 10 to 1|SIP/2.0 400 Bad Request|Via: SIP/2.0/UDP 127.0.0.1:5071;branch=z9hG4bKc2|From: "Alice" <sip:alice@home.example>;tag=t2
|To: <sip:bob@home.example>;tag=0123456789abcdef-2|Call-ID: call2|CSeq: 7 INVITE|Content-Length: 0|
at 20 to 1|SIP/2.0 422 Session Interval Too Small|Via: SIP/2.0/UDP 127.0.0.1:5071;branch=z9hG4bKc3|From: "Alice" <sip:alice@home.example>;tag=t3
|To: <sip:bob@home.example>;tag=0123456789abcdef-3|Call-ID: call3|CSeq: 7 INVITE|Min-SE: 90|Content-Length: 0|
~ The answer gives 90 seconds, and nobody refreshes the session.
=further:extension timer;
at 0 peer 1|INVITE sip:bob@far.example SIP/2.0|Via: SIP/2.0/UDP 127.0.0.1:5071;branch=z9hG4bKa1|Max-Forwards: 68|From: "Erin" <sip:erin@other.example>;tag=a
|To: <sip:bob@far.example>|Call-ID: c1|CSeq: 7 INVITE|Contact: <sip:erin@127.0.0.1:5071>|P-Asserted-Identity: <sip:erin@other.example>|Privacy: id|x: 90
|Content-Length: 0|
at 200 peer 2|SIP/2.0 200 OK|Via: SIP/2.0/UDP 127.0.0.1:5060;branch=z9hG4bK0123456789abcdef-4|From: "Anonymous" <sip:anonymous@anonymous.invalid>;tag=0123456789abcdef-3
|To: <sip:bob@far.example>;tag=bt|Call-ID: 0123456789abcdef-2|CSeq: 1 INVITE|Contact: <sip:bob@127.0.0.1:5072>|Session-Expires: 90;refresher=uac|Content-Length: 0|
at 300 peer 1|ACK sip:127.0.0.1:5060 SIP/2.0|Via: SIP/2.0/UDP 127.0.0.1:5071;branch=z9hG4bKk|Max-Forwards: 68|From: "Erin" <sip:erin@other.example>;tag=a
|To: <sip:bob@far.example>;tag=0123456789abcdef-1|Call-ID: c1|CSeq: 7 ACK|Content-Length: 0|
at 100000 quiet
~ 90 seconds after it both sides have a BYE, which is sent again without an answer.
at 0 to 1|SIP/2.0 100 Trying|Via: SIP/2.0/UDP 127.0.0.1:5071;branch=z9hG4bKa1|From: "Erin" <sip:erin@other.example>;tag=a|To: <sip:bob@far.example>|Call-ID: c1
|CSeq: 7 INVITE|Content-Length: 0|
at 0 to 2|INVITE sip:bob@far.example SIP/2.0|Via: SIP/2.0/UDP 127.0.0.1:5060;branch=z9hG4bK0123456789abcdef-4|Max-Forwards: 67
|From: "Anonymous" <sip:anonymous@anonymous.invalid>;tag=0123456789abcdef-3|To: <sip:bob@far.example>|Call-ID: 0123456789abcdef-2|CSeq: 1 INVITE
|Contact: <sip:127.0.0.1:5060>|Session-Expires: 90|Content-Length: 0|
at 200 to 1|SIP/2.0 200 OK|Via: SIP/2.0/UDP 127.0.0.1:5071;branch=z9hG4bKa1|From: "Erin" <sip:erin@other.example>;tag=a|To: <sip:bob@far.example>;tag=0123456789abcdef-1
|Call-ID: c1|CSeq: 7 INVITE|Contact: <sip:127.0.0.1:5060>|Session-Expires: 90;refresher=uac|Content-Length: 0|
at 300 to 2|ACK sip:bob@127.0.0.1:5072 SIP/2.0|Via: SIP/2.0/UDP 127.0.0.1:5060;branch=z9hG4bK0123456789abcdef-5|Max-Forwards: 67
|From: "Anonymous" <sip:anonymous@anonymous.invalid>;tag=0123456789abcdef-3|To: <sip:bob@far.example>;tag=bt|Call-ID: 0123456789abcdef-2|CSeq: 1 ACK|Content-Length: 0|
at 90200 to 1|BYE sip:erin@127.0.0.1:5071 SIP/2.0|Via: SIP/2.0/UDP 127.0.0.1:5060;branch=z9hG4bK0123456789abcdef-6|Max-Forwards: 70
|From: <sip:bob@far.example>;tag=0123456789abcdef-1|To: "Erin" <sip:erin@other.example>;tag=a|Call-ID: c1|CSeq: 1 BYE|Content-Length: 0|
at 90200 to 2|BYE sip:bob@127.0.0.1:5072 SIP/2.0|Via: SIP/2.0/UDP 127.0.0.1:5060;branch=z9hG4bK0123456789abcdef-7|Max-Forwards: 70
|From: "Anonymous" <sip:anonymous@anonymous.invalid>;tag=0123456789abcdef-3|To: <sip:bob@far.example>;tag=bt|Call-ID: 0123456789abcdef-2|CSeq: 2 BYE|Content-Length: 0|
at 90700 to 1|BYE sip:erin@127.0.0.1:5071 SIP/2.0|Via: SIP/2.0/UDP 127.0.0.1:5060;branch=z9hG4bK0123456789abcdef-6|Max-Forwards: 70
|From: <sip:bob@far.example>;tag=0123456789abcdef-1|To: "Erin" <sip:erin@other.example>;tag=a|Call-ID: c1|CSeq: 1 BYE|Content-Length: 0|
at 90700 to 2|BYE sip:bob@127.0.0.1:5072 SIP/2.0|Via: SIP/2.0/UDP 127.0.0.1:5060;branch=z9hG4bK0123456789abcdef-7|Max-Forwards: 70
|From: "Anonymous" <sip:anonymous@anonymous.invalid>;tag=0123456789abcdef-3|To: <sip:bob@far.example>;tag=bt|Call-ID: 0123456789abcdef-2|CSeq: 2 BYE|Content-Length: 0|
at 91700 to 1|BYE sip:erin@127.0.0.1:5071 SIP/2.0|Via: SIP/2.0/UDP 127.0.0.1:5060;branch=z9hG4bK0123456789abcdef-6|Max-Forwards: 70
|From: <sip:bob@far.example>;tag=0123456789abcdef-1|To: "Erin" <sip:erin@other.example>;tag=a|Call-ID: c1|CSeq: 1 BYE|Content-Length: 0|
at 91700 to 2|BYE sip:bob@127.0.0.1:5072 SIP/2.0|Via: SIP/2.0/UDP 127.0.0.1:5060;branch=z9hG4bK0123456789abcdef-7|Max-Forwards: 70
|From: "Anonymous" <sip:anonymous@anonymous.invalid>;tag=0123456789abcdef-3|To: <sip:bob@far.example>;tag=bt|Call-ID: 0123456789abcdef-2|CSeq: 2 BYE|Content-Length: 0|
at 93700 to 1|BYE sip:erin@127.0.0.1:5071 SIP/2.0|Via: SIP/2.0/UDP 127.0.0.1:5060;branch=z9hG4bK0123456789abcdef-6|Max-Forwards: 70
|From: <sip:bob@far.example>;tag=0123456789abcdef-1|To: "Erin" <sip:erin@other.example>;tag=a|Call-ID: c1|CSeq: 1 BYE|Content-Length: 0|
at 93700 to 2|BYE sip:bob@127.0.0.1:5072 SIP/2.0|Via: SIP/2.0/UDP 127.0.0.1:5060;branch=z9hG4bK0123456789abcdef-7|Max-Forwards: 70
|From: "Anonymous" <sip:anonymous@anonymous.invalid>;tag=0123456789abcdef-3|To: <sip:bob@far.example>;tag=bt|Call-ID: 0123456789abcdef-2|CSeq: 2 BYE|Content-Length: 0|
at 97700 to 1|BYE sip:erin@127.0.0.1:5071 SIP/2.0|Via: SIP/2.0/UDP 127.0.0.1:5060;branch=z9hG4bK0123456789abcdef-6|Max-Forwards: 70
|From: <sip:bob@far.example>;tag=0123456789abcdef-1|To: "Erin" <sip:erin@other.example>;tag=a|Call-ID: c1|CSeq: 1 BYE|Content-Length: 0|
at 97700 to 2|BYE sip:bob@127.0.0.1:5072 SIP/2.0|Via: SIP/2.0/UDP 127.0.0.1:5060;branch=z9hG4bK0123456789abcdef-7|Max-Forwards: 70
|From: "Anonymous" <sip:anonymous@anonymous.invalid>;tag=0123456789abcdef-3|To: <sip:bob@far.example>;tag=bt|Call-ID: 0123456789abcdef-2|CSeq: 2 BYE|Content-Length: 0|
~ A re-INVITE is answered with 90 seconds before that.
=further:extension timer;
at 0 peer 1|INVITE sip:bob@far.example SIP/2.0|Via: SIP/2.0/UDP 127.0.0.1:5071;branch=z9hG4bKa1|Max-Forwards: 68|From: "Erin" <sip:erin@other.example>;tag=a
|To: <sip:bob@far.example>|Call-ID: c1|CSeq: 7 INVITE|Contact: <sip:erin@127.0.0.1:5071>|P-Asserted-Identity: <sip:erin@other.example>|Privacy: id|x: 90
|Content-Length: 0|
at 200 peer 2|SIP/2.0 200 OK|Via: SIP/2.0/UDP 127.0.0.1:5060;branch=z9hG4bK0123456789abcdef-4|From: "Anonymous" <sip:anonymous@anonymous.invalid>;tag=0123456789abcdef-3
|To: <sip:bob@far.example>;tag=bt|Call-ID: 0123456789abcdef-2|CSeq: 1 INVITE|Contact: <sip:bob@127.0.0.1:5072>|Session-Expires: 90;refresher=uac|Content-Length: 0|
at 300 peer 1|ACK sip:127.0.0.1:5060 SIP/2.0|Via: SIP/2.0/UDP 127.0.0.1:5071;branch=z9hG4bKk|Max-Forwards: 68|From: "Erin" <sip:erin@other.example>;tag=a
|To: <sip:bob@far.example>;tag=0123456789abcdef-1|Call-ID: c1|CSeq: 7 ACK|Content-Length: 0|
at 49900 peer 1|INVITE sip:127.0.0.1:5060 SIP/2.0|Via: SIP/2.0/UDP 127.0.0.1:5071;branch=z9hG4bKi2|Max-Forwards: 68|From: "Erin" <sip:erin@other.example>;tag=a
|To: <sip:bob@far.example>;tag=0123456789abcdef-1|Call-ID: c1|CSeq: 8 INVITE|Contact: <sip:erin@127.0.0.1:5071>|Session-Expires: 90|Content-Length: 0|
at 50000 peer 2|SIP/2.0 200 OK|Via: SIP/2.0/UDP 127.0.0.1:5060;branch=z9hG4bK0123456789abcdef-6
|From: "Anonymous" <sip:anonymous@anonymous.invalid>;tag=0123456789abcdef-3|To: <sip:bob@far.example>;tag=bt|Call-ID: 0123456789abcdef-2|CSeq: 2 INVITE
|Contact: <sip:bob@127.0.0.1:5072>|Session-Expires: 90|Content-Length: 0|
at 50100 peer 1|ACK sip:127.0.0.1:5060 SIP/2.0|Via: SIP/2.0/UDP 127.0.0.1:5071;branch=z9hG4bKk2|Max-Forwards: 68|From: "Erin" <sip:erin@other.example>;tag=a
|To: <sip:bob@far.example>;tag=0123456789abcdef-1|Call-ID: c1|CSeq: 8 ACK|Content-Length: 0|
at 139999 quiet
at 140000 quiet
~ The session expires 90 seconds after that answer, and not before.
at 0 to 1|SIP/2.0 100 Trying|Via: SIP/2.0/UDP 127.0.0.1:5071;branch=z9hG4bKa1|From: "Erin" <sip:erin@other.example>;tag=a|To: <sip:bob@far.example>|Call-ID: c1
|CSeq: 7 INVITE|Content-Length: 0|
at 0 to 2|INVITE sip:bob@far.example SIP/2.0|Via: SIP/2.0/UDP 127.0.0.1:5060;branch=z9hG4bK0123456789abcdef-4|Max-Forwards: 67
|From: "Anonymous" <sip:anonymous@anonymous.invalid>;tag=0123456789abcdef-3|To: <sip:bob@far.example>|Call-ID: 0123456789abcdef-2|CSeq: 1 INVITE
|Contact: <sip:127.0.0.1:5060>|Session-Expires: 90|Content-Length: 0|
at 200 to 1|SIP/2.0 200 OK|Via: SIP/2.0/UDP 127.0.0.1:5071;branch=z9hG4bKa1|From: "Erin" <sip:erin@other.example>;tag=a|To: <sip:bob@far.example>;tag=0123456789abcdef-1
|Call-ID: c1|CSeq: 7 INVITE|Contact: <sip:127.0.0.1:5060>|Session-Expires: 90;refresher=uac|Content-Length: 0|
at 300 to 2|ACK sip:bob@127.0.0.1:5072 SIP/2.0|Via: SIP/2.0/UDP 127.0.0.1:5060;branch=z9hG4bK0123456789abcdef-5|Max-Forwards: 67
|From: "Anonymous" <sip:anonymous@anonymous.invalid>;tag=0123456789abcdef-3|To: <sip:bob@far.example>;tag=bt|Call-ID: 0123456789abcdef-2|CSeq: 1 ACK|Content-Length: 0|
at 49900 to 1|SIP/2.0 100 Trying|Via: SIP/2.0/UDP 127.0.0.1:5071;branch=z9hG4bKi2|From: "Erin" <sip:erin@other.example>;tag=a
|To: <sip:bob@far.example>;tag=0123456789abcdef-1|Call-ID: c1|CSeq: 8 INVITE|Content-Length: 0|
at 49900 to 2|INVITE sip:bob@127.0.0.1:5072 SIP/2.0|Via: SIP/2.0/UDP 127.0.0.1:5060;branch=z9hG4bK0123456789abcdef-6|Max-Forwards: 67
|From: "Anonymous" <sip:anonymous@anonymous.invalid>;tag=0123456789abcdef-3|To: <sip:bob@far.example>;tag=bt|Call-ID: 0123456789abcdef-2|CSeq: 2 INVITE
|Contact: <sip:127.0.0.1:5060>|Session-Expires: 90|Content-Length: 0|
at 50000 to 1|SIP/2.0 200 OK|Via: SIP/2.0/UDP 127.0.0.1:5071;branch=z9hG4bKi2|From: "Erin" <sip:erin@other.example>;tag=a
|To: <sip:bob@far.example>;tag=0123456789abcdef-1|Call-ID: c1|CSeq: 8 INVITE|Contact: <sip:127.0.0.1:5060>|Session-Expires: 90|Content-Length: 0|
at 50100 to 2|ACK sip:bob@127.0.0.1:5072 SIP/2.0|Via: SIP/2.0/UDP 127.0.0.1:5060;branch=z9hG4bK0123456789abcdef-7|Max-Forwards: 67
|From: "Anonymous" <sip:anonymous@anonymous.invalid>;tag=0123456789abcdef-3|To: <sip:bob@far.example>;tag=bt|Call-ID: 0123456789abcdef-2|CSeq: 2 ACK|Content-Length: 0|
at 140000 to 1|BYE sip:erin@127.0.0.1:5071 SIP/2.0|Via: SIP/2.0/UDP 127.0.0.1:5060;branch=z9hG4bK0123456789abcdef-8|Max-Forwards: 70
|From: <sip:bob@far.example>;tag=0123456789abcdef-1|To: "Erin" <sip:erin@other.example>;tag=a|Call-ID: c1|CSeq: 1 BYE|Content-Length: 0|
at 140000 to 2|BYE sip:bob@127.0.0.1:5072 SIP/2.0|Via: SIP/2.0/UDP 127.0.0.1:5060;branch=z9hG4bK0123456789abcdef-9|Max-Forwards: 70
|From: "Anonymous" <sip:anonymous@anonymous.invalid>;tag=0123456789abcdef-3|To: <sip:bob@far.example>;tag=bt|Call-ID: 0123456789abcdef-2|CSeq: 3 BYE|Content-Length: 0|
~ In a call: a re-INVITE asks for too short a session, and so does one of an older CSeq number; one of the number of the first asks for another.
=further:extension timer;
at 0 peer 1|INVITE sip:bob@home.example SIP/2.0|Via: SIP/2.0/UDP 127.0.0.1:5071;branch=z9hG4bKc1|Max-Forwards: 68|From: "Alice" <sip:alice@home.example>;tag=t1
|To: <sip:bob@home.example>|Call-ID: call1|CSeq: 7 INVITE|Contact: <sip:alice@127.0.0.1:5071>|P-Asserted-Identity: <sip:alice@home.example>|Content-Length: 0|
at 200 peer 1|SIP/2.0 200 OK|Via: SIP/2.0/UDP 127.0.0.1:5060;branch=z9hG4bK0123456789abcdef-4|From: "Alice" <sip:alice@home.example>;tag=0123456789abcdef-3
|To: <sip:bob@home.example>;tag=b1|Call-ID: 0123456789abcdef-2|CSeq: 1 INVITE|Contact: <sip:bob1@127.0.0.1:5071>|Content-Length: 0|
at 300 peer 1|ACK sip:127.0.0.1:5060 SIP/2.0|Via: SIP/2.0/UDP 127.0.0.1:5071;branch=z9hG4bKk1|Max-Forwards: 68|From: "Alice" <sip:alice@home.example>;tag=t1
|To: <sip:bob@home.example>;tag=0123456789abcdef-1|Call-ID: call1|CSeq: 7 ACK|Content-Length: 0|
at 400 peer 1|INVITE sip:127.0.0.1:5060 SIP/2.0|Via: SIP/2.0/UDP 127.0.0.1:5071;branch=z9hG4bKh1|Max-Forwards: 68|From: "Alice" <sip:alice@home.example>;tag=t1
|To: <sip:bob@home.example>;tag=0123456789abcdef-1|Call-ID: call1|CSeq: 8 INVITE|Contact: <sip:alice@127.0.0.1:5071>|x: 10|Content-Length: 0|
at 405 peer 1|INVITE sip:127.0.0.1:5060 SIP/2.0|Via: SIP/2.0/UDP 127.0.0.1:5071;branch=z9hG4bKh3|Max-Forwards: 68|From: "Alice" <sip:alice@home.example>;tag=t1
|To: <sip:bob@home.example>;tag=0123456789abcdef-1|Call-ID: call1|CSeq: 6 INVITE|Contact: <sip:alice@127.0.0.1:5071>|x: 10|Content-Length: 0|
at 410 peer 1|INVITE sip:127.0.0.1:5060 SIP/2.0|Via: SIP/2.0/UDP 127.0.0.1:5071;branch=z9hG4bKh2|Max-Forwards: 68|From: "Alice" <sip:alice@home.example>;tag=t1
|To: <sip:bob@home.example>;tag=0123456789abcdef-1|Call-ID: call1|CSeq: 8 INVITE|Contact: <sip:alice@127.0.0.1:5071>|x: 100|Min-SE: 95|Supported: timer, foo
|Content-Length: 0|
~ These two change nothing, so the third is relayed, with the lines of the session and the option `timer` alone.
at 0 to 1|SIP/2.0 100 Trying|Via: SIP/2.0/UDP 127.0.0.1:5071;branch=z9hG4bKc1|From: "Alice" <sip:alice@home.example>;tag=t1|To: <sip:bob@home.example>|Call-ID: call1
|CSeq: 7 INVITE|Content-Length: 0|
at 0 to 1|INVITE sip:bob@home.example SIP/2.0|Via: SIP/2.0/UDP 127.0.0.1:5060;branch=z9hG4bK0123456789abcdef-4|Max-Forwards: 67
|From: "Alice" <sip:alice@home.example>;tag=0123456789abcdef-3|To: <sip:bob@home.example>|Call-ID: 0123456789abcdef-2|CSeq: 1 INVITE|Contact: <sip:127.0.0.1:5060>
|P-Asserted-Identity: <sip:alice@home.example>|Content-Length: 0|
at 200 to 1|SIP/2.0 200 OK|Via: SIP/2.0/UDP 127.0.0.1:5071;branch=z9hG4bKc1|From: "Alice" <sip:alice@home.example>;tag=t1
|To: <sip:bob@home.example>;tag=0123456789abcdef-1|Call-ID: call1|CSeq: 7 INVITE|Contact: <sip:127.0.0.1:5060>|Content-Length: 0|
at 300 to 1|ACK sip:bob1@127.0.0.1:5071 SIP/2.0|Via: SIP/2.0/UDP 127.0.0.1:5060;branch=z9hG4bK0123456789abcdef-5|Max-Forwards: 67
|From: "Alice" <sip:alice@home.example>;tag=0123456789abcdef-3|To: <sip:bob@home.example>;tag=b1|Call-ID: 0123456789abcdef-2|CSeq: 1 ACK|Content-Length: 0|
at 400 to 1|SIP/2.0 422 Session Interval Too Small|Via: SIP/2.0/UDP 127.0.0.1:5071;branch=z9hG4bKh1|From: "Alice" <sip:alice@home.example>;tag=t1
|To: <sip:bob@home.example>;tag=0123456789abcdef-1|Call-ID: call1|CSeq: 8 INVITE|Min-SE: 90|Content-Length: 0|
at 405 to 1|SIP/2.0 422 Session Interval Too Small|Via: SIP/2.0/UDP 127.0.0.1:5071;branch=z9hG4bKh3|From: "Alice" <sip:alice@home.example>;tag=t1
|To: <sip:bob@home.example>;tag=0123456789abcdef-1|Call-ID: call1|CSeq: 6 INVITE|Min-SE: 90|Content-Length: 0|
at 410 to 1|SIP/2.0 100 Trying|Via: SIP/2.0/UDP 127.0.0.1:5071;branch=z9hG4bKh2|From: "Alice" <sip:alice@home.example>;tag=t1
|To: <sip:bob@home.example>;tag=0123456789abcdef-1|Call-ID: call1|CSeq: 8 INVITE|Content-Length: 0|
at 410 to 1|INVITE sip:bob1@127.0.0.1:5071 SIP/2.0|Via: SIP/2.0/UDP 127.0.0.1:5060;branch=z9hG4bK0123456789abcdef-6|Max-Forwards: 67
|From: "Alice" <sip:alice@home.example>;tag=0123456789abcdef-3|To: <sip:bob@home.example>;tag=b1|Call-ID: 0123456789abcdef-2|CSeq: 2 INVITE
|Contact: <sip:127.0.0.1:5060>|Session-Expires: 100|Min-SE: 95|Supported: timer|Content-Length: 0|
~ An answer of 30 seconds, which last 90; at their end a re-INVITE has no answer. A provisional response comes late.
=further:extension timer;
at 0 peer 1|INVITE sip:bob@home.example SIP/2.0|Via: SIP/2.0/UDP 127.0.0.1:5071;branch=z9hG4bKc1|Max-Forwards: 68|From: "Alice" <sip:alice@home.example>;tag=t1
|To: <sip:bob@home.example>|Call-ID: call1|CSeq: 7 INVITE|Contact: <sip:alice@127.0.0.1:5071>|P-Asserted-Identity: <sip:alice@home.example>|Content-Length: 0|
at 200 peer 1|SIP/2.0 200 OK|Via: SIP/2.0/UDP 127.0.0.1:5060;branch=z9hG4bK0123456789abcdef-4|From: "Alice" <sip:alice@home.example>;tag=0123456789abcdef-3
|To: <sip:bob@home.example>;tag=b1|Call-ID: 0123456789abcdef-2|CSeq: 1 INVITE|Contact: <sip:bob1@127.0.0.1:5071>|Session-Expires: 30|Content-Length: 0|
at 300 peer 1|ACK sip:127.0.0.1:5060 SIP/2.0|Via: SIP/2.0/UDP 127.0.0.1:5071;branch=z9hG4bKk|Max-Forwards: 68|From: "Alice" <sip:alice@home.example>;tag=t1
|To: <sip:bob@home.example>;tag=0123456789abcdef-1|Call-ID: call1|CSeq: 7 ACK|Content-Length: 0|
at 90000 peer 1|INVITE sip:127.0.0.1:5060 SIP/2.0|Via: SIP/2.0/UDP 127.0.0.1:5071;branch=z9hG4bKh1|Max-Forwards: 68|From: "Alice" <sip:alice@home.example>;tag=t1
|To: <sip:bob@home.example>;tag=0123456789abcdef-1|Call-ID: call1|CSeq: 8 INVITE|Contact: <sip:alice@127.0.0.1:5071>|Content-Length: 0|
at 90200 quiet
at 90210 peer 1|SIP/2.0 180 Ringing|Via: SIP/2.0/UDP 127.0.0.1:5060;branch=z9hG4bK0123456789abcdef-6|From: "Alice" <sip:alice@home.example>;tag=0123456789abcdef-3
|To: <sip:bob@home.example>;tag=b1|Call-ID: 0123456789abcdef-2|CSeq: 2 INVITE|Content-Length: 0|
~ 487 to the re-INVITE, BYE to both sides, and CANCEL once the response is there.
at 0 to 1|SIP/2.0 100 Trying|Via: SIP/2.0/UDP 127.0.0.1:5071;branch=z9hG4bKc1|From: "Alice" <sip:alice@home.example>;tag=t1|To: <sip:bob@home.example>|Call-ID: call1
|CSeq: 7 INVITE|Content-Length: 0|
at 0 to 1|INVITE sip:bob@home.example SIP/2.0|Via: SIP/2.0/UDP 127.0.0.1:5060;branch=z9hG4bK0123456789abcdef-4|Max-Forwards: 67
|From: "Alice" <sip:alice@home.example>;tag=0123456789abcdef-3|To: <sip:bob@home.example>|Call-ID: 0123456789abcdef-2|CSeq: 1 INVITE|Contact: <sip:127.0.0.1:5060>
|P-Asserted-Identity: <sip:alice@home.example>|Content-Length: 0|
at 200 to 1|SIP/2.0 200 OK|Via: SIP/2.0/UDP 127.0.0.1:5071;branch=z9hG4bKc1|From: "Alice" <sip:alice@home.example>;tag=t1
|To: <sip:bob@home.example>;tag=0123456789abcdef-1|Call-ID: call1|CSeq: 7 INVITE|Contact: <sip:127.0.0.1:5060>|Session-Expires: 30|Content-Length: 0|
at 300 to 1|ACK sip:bob1@127.0.0.1:5071 SIP/2.0|Via: SIP/2.0/UDP 127.0.0.1:5060;branch=z9hG4bK0123456789abcdef-5|Max-Forwards: 67
|From: "Alice" <sip:alice@home.example>;tag=0123456789abcdef-3|To: <sip:bob@home.example>;tag=b1|Call-ID: 0123456789abcdef-2|CSeq: 1 ACK|Content-Length: 0|
at 90000 to 1|SIP/2.0 100 Trying|Via: SIP/2.0/UDP 127.0.0.1:5071;branch=z9hG4bKh1|From: "Alice" <sip:alice@home.example>;tag=t1
|To: <sip:bob@home.example>;tag=0123456789abcdef-1|Call-ID: call1|CSeq: 8 INVITE|Content-Length: 0|
at 90000 to 1|INVITE sip:bob1@127.0.0.1:5071 SIP/2.0|Via: SIP/2.0/UDP 127.0.0.1:5060;branch=z9hG4bK0123456789abcdef-6|Max-Forwards: 67
|From: "Alice" <sip:alice@home.example>;tag=0123456789abcdef-3|To: <sip:bob@home.example>;tag=b1|Call-ID: 0123456789abcdef-2|CSeq: 2 INVITE
|Contact: <sip:127.0.0.1:5060>|Content-Length: 0|
at 90200 to 1|SIP/2.0 487 Request Terminated|Via: SIP/2.0/UDP 127.0.0.1:5071;branch=z9hG4bKh1|From: "Alice" <sip:alice@home.example>;tag=t1
|To: <sip:bob@home.example>;tag=0123456789abcdef-1|Call-ID: call1|CSeq: 8 INVITE|Content-Length: 0|
at 90200 to 1|BYE sip:alice@127.0.0.1:5071 SIP/2.0|Via: SIP/2.0/UDP 127.0.0.1:5060;branch=z9hG4bK0123456789abcdef-7|Max-Forwards: 70
|From: <sip:bob@home.example>;tag=0123456789abcdef-1|To: "Alice" <sip:alice@home.example>;tag=t1|Call-ID: call1|CSeq: 1 BYE|Content-Length: 0|
at 90200 to 1|BYE sip:bob1@127.0.0.1:5071 SIP/2.0|Via: SIP/2.0/UDP 127.0.0.1:5060;branch=z9hG4bK0123456789abcdef-8|Max-Forwards: 70
|From: "Alice" <sip:alice@home.example>;tag=0123456789abcdef-3|To: <sip:bob@home.example>;tag=b1|Call-ID: 0123456789abcdef-2|CSeq: 3 BYE|Content-Length: 0|
at 90210 to 1|CANCEL sip:bob1@127.0.0.1:5071 SIP/2.0|Via: SIP/2.0/UDP 127.0.0.1:5060;branch=z9hG4bK0123456789abcdef-6|Max-Forwards: 70
|From: "Alice" <sip:alice@home.example>;tag=0123456789abcdef-3|To: <sip:bob@home.example>;tag=b1|Call-ID: 0123456789abcdef-2|CSeq: 2 CANCEL|Content-Length: 0|
~ The answer gives the session 100 seconds, by a compact name; the caller acknowledges it, and nobody refreshes it.
=further:extension timer;
at 0 peer 1|INVITE sip:bob@home.example SIP/2.0|Via: SIP/2.0/UDP 127.0.0.1:5071;branch=z9hG4bKc1|Max-Forwards: 68|From: "Alice" <sip:alice@home.example>;tag=t1
|To: <sip:bob@home.example>|Call-ID: call1|CSeq: 7 INVITE|Contact: <sip:alice@127.0.0.1:5071>|P-Asserted-Identity: <sip:alice@home.example>|Content-Length: 0|
at 200 peer 1|SIP/2.0 200 OK|Via: SIP/2.0/UDP 127.0.0.1:5060;branch=z9hG4bK0123456789abcdef-4|From: "Alice" <sip:alice@home.example>;tag=0123456789abcdef-3
|To: <sip:bob@home.example>;tag=b1|Call-ID: 0123456789abcdef-2|CSeq: 1 INVITE|Contact: <sip:bob1@127.0.0.1:5071>|x: 100;refresher=uas|Content-Length: 0|
at 300 peer 1|ACK sip:127.0.0.1:5060 SIP/2.0|Via: SIP/2.0/UDP 127.0.0.1:5071;branch=z9hG4bKk1|Max-Forwards: 68|From: "Alice" <sip:alice@home.example>;tag=t1
|To: <sip:bob@home.example>;tag=0123456789abcdef-1|Call-ID: call1|CSeq: 7 ACK|Content-Length: 0|
at 100199 quiet
at 100200 quiet
at 100210 peer 1|SIP/2.0 200 OK|Via: SIP/2.0/UDP 127.0.0.1:5060;branch=z9hG4bK0123456789abcdef-6|From: "Alice" <sip:alice@home.example>;tag=0123456789abcdef-3
|To: <sip:bob@home.example>;tag=b1|Call-ID: 0123456789abcdef-2|CSeq: 1 BYE|Content-Length: 0|
at 100220 quiet
~ BYE to both sides at that moment, and not a millisecond before; bob answers his.
at 0 to 1|SIP/2.0 100 Trying|Via: SIP/2.0/UDP 127.0.0.1:5071;branch=z9hG4bKc1|From: "Alice" <sip:alice@home.example>;tag=t1|To: <sip:bob@home.example>|Call-ID: call1
|CSeq: 7 INVITE|Content-Length: 0|
at 0 to 1|INVITE sip:bob@home.example SIP/2.0|Via: SIP/2.0/UDP 127.0.0.1:5060;branch=z9hG4bK0123456789abcdef-4|Max-Forwards: 67
|From: "Alice" <sip:alice@home.example>;tag=0123456789abcdef-3|To: <sip:bob@home.example>|Call-ID: 0123456789abcdef-2|CSeq: 1 INVITE|Contact: <sip:127.0.0.1:5060>
|P-Asserted-Identity: <sip:alice@home.example>|Content-Length: 0|
at 200 to 1|SIP/2.0 200 OK|Via: SIP/2.0/UDP 127.0.0.1:5071;branch=z9hG4bKc1|From: "Alice" <sip:alice@home.example>;tag=t1
|To: <sip:bob@home.example>;tag=0123456789abcdef-1|Call-ID: call1|CSeq: 7 INVITE|Contact: <sip:127.0.0.1:5060>|Session-Expires: 100;refresher=uas|Content-Length: 0|
at 300 to 1|ACK sip:bob1@127.0.0.1:5071 SIP/2.0|Via: SIP/2.0/UDP 127.0.0.1:5060;branch=z9hG4bK0123456789abcdef-5|Max-Forwards: 67
|From: "Alice" <sip:alice@home.example>;tag=0123456789abcdef-3|To: <sip:bob@home.example>;tag=b1|Call-ID: 0123456789abcdef-2|CSeq: 1 ACK|Content-Length: 0|
at 100200 to 1|BYE sip:alice@127.0.0.1:5071 SIP/2.0|Via: SIP/2.0/UDP 127.0.0.1:5060;branch=z9hG4bK0123456789abcdef-6|Max-Forwards: 70
|From: <sip:bob@home.example>;tag=0123456789abcdef-1|To: "Alice" <sip:alice@home.example>;tag=t1|Call-ID: call1|CSeq: 1 BYE|Content-Length: 0|
at 100200 to 1|BYE sip:bob1@127.0.0.1:5071 SIP/2.0|Via: SIP/2.0/UDP 127.0.0.1:5060;branch=z9hG4bK0123456789abcdef-7|Max-Forwards: 70
|From: "Alice" <sip:alice@home.example>;tag=0123456789abcdef-3|To: <sip:bob@home.example>;tag=b1|Call-ID: 0123456789abcdef-2|CSeq: 2 BYE|Content-Length: 0|
~ An answer gives 180 seconds; another call is offered; a re-INVITE is answered with 90 seconds. Two expiries and the time of the other call are due at one moment.
=further:extension timer;
at 0 peer 1|INVITE sip:bob@home.example SIP/2.0|Via: SIP/2.0/UDP 127.0.0.1:5071;branch=z9hG4bKc1|Max-Forwards: 68|From: "Alice" <sip:alice@home.example>;tag=t1
|To: <sip:bob@home.example>|Call-ID: call1|CSeq: 7 INVITE|Contact: <sip:alice@127.0.0.1:5071>|P-Asserted-Identity: <sip:alice@home.example>|Content-Length: 0|
at 0 peer 1|SIP/2.0 200 OK|Via: SIP/2.0/UDP 127.0.0.1:5060;branch=z9hG4bK0123456789abcdef-4|From: "Alice" <sip:alice@home.example>;tag=0123456789abcdef-3
|To: <sip:bob@home.example>;tag=b1|Call-ID: 0123456789abcdef-2|CSeq: 1 INVITE|Contact: <sip:bob1@127.0.0.1:5071>|Session-Expires: 180|Content-Length: 0|
at 0 peer 1|ACK sip:127.0.0.1:5060 SIP/2.0|Via: SIP/2.0/UDP 127.0.0.1:5071;branch=z9hG4bKk1|Max-Forwards: 68|From: "Alice" <sip:alice@home.example>;tag=t1
|To: <sip:bob@home.example>;tag=0123456789abcdef-1|Call-ID: call1|CSeq: 7 ACK|Content-Length: 0|
at 0 peer 1|INVITE sip:vm@far.example SIP/2.0|Via: SIP/2.0/UDP 127.0.0.1:5071;branch=z9hG4bKd1|Max-Forwards: 68|From: "Erin" <sip:erin@other.example>;tag=e1
|To: <sip:vm@far.example>|Call-ID: call2|CSeq: 5 INVITE|Contact: <sip:erin@127.0.0.1:5071>|Content-Length: 0|
at 0 peer 2|SIP/2.0 180 Ringing|Via: SIP/2.0/UDP 127.0.0.1:5060;branch=z9hG4bK0123456789abcdef-9|From: "Erin" <sip:erin@other.example>;tag=0123456789abcdef-8
|To: <sip:vm@far.example>;tag=v1|Call-ID: 0123456789abcdef-7|CSeq: 1 INVITE|Content-Length: 0|
at 89990 peer 1|INVITE sip:127.0.0.1:5060 SIP/2.0|Via: SIP/2.0/UDP 127.0.0.1:5071;branch=z9hG4bKh1|Max-Forwards: 68|From: "Alice" <sip:alice@home.example>;tag=t1
|To: <sip:bob@home.example>;tag=0123456789abcdef-1|Call-ID: call1|CSeq: 8 INVITE|Contact: <sip:alice@127.0.0.1:5071>|Content-Length: 0|
at 90000 peer 1|SIP/2.0 200 OK|Via: SIP/2.0/UDP 127.0.0.1:5060;branch=z9hG4bK0123456789abcdef-10|From: "Alice" <sip:alice@home.example>;tag=0123456789abcdef-3
|To: <sip:bob@home.example>;tag=b1|Call-ID: 0123456789abcdef-2|CSeq: 2 INVITE|Contact: <sip:bob1@127.0.0.1:5071>|Session-Expires: 90|Content-Length: 0|
at 90010 peer 1|ACK sip:127.0.0.1:5060 SIP/2.0|Via: SIP/2.0/UDP 127.0.0.1:5071;branch=z9hG4bKk2|Max-Forwards: 68|From: "Alice" <sip:alice@home.example>;tag=t1
|To: <sip:bob@home.example>;tag=0123456789abcdef-1|Call-ID: call1|CSeq: 8 ACK|Content-Length: 0|
at 180000 quiet
~ The earlier expiry is superseded. The other call's time, which was armed before the later one, comes first: CANCEL and 480; then the BYEs.
at 0 to 1|SIP/2.0 100 Trying|Via: SIP/2.0/UDP 127.0.0.1:5071;branch=z9hG4bKc1|From: "Alice" <sip:alice@home.example>;tag=t1|To: <sip:bob@home.example>|Call-ID: call1
|CSeq: 7 INVITE|Content-Length: 0|
at 0 to 1|INVITE sip:bob@home.example SIP/2.0|Via: SIP/2.0/UDP 127.0.0.1:5060;branch=z9hG4bK0123456789abcdef-4|Max-Forwards: 67
|From: "Alice" <sip:alice@home.example>;tag=0123456789abcdef-3|To: <sip:bob@home.example>|Call-ID: 0123456789abcdef-2|CSeq: 1 INVITE|Contact: <sip:127.0.0.1:5060>
|P-Asserted-Identity: <sip:alice@home.example>|Content-Length: 0|
at 0 to 1|SIP/2.0 200 OK|Via: SIP/2.0/UDP 127.0.0.1:5071;branch=z9hG4bKc1|From: "Alice" <sip:alice@home.example>;tag=t1
|To: <sip:bob@home.example>;tag=0123456789abcdef-1|Call-ID: call1|CSeq: 7 INVITE|Contact: <sip:127.0.0.1:5060>|Session-Expires: 180|Content-Length: 0|
at 0 to 1|ACK sip:bob1@127.0.0.1:5071 SIP/2.0|Via: SIP/2.0/UDP 127.0.0.1:5060;branch=z9hG4bK0123456789abcdef-5|Max-Forwards: 67
|From: "Alice" <sip:alice@home.example>;tag=0123456789abcdef-3|To: <sip:bob@home.example>;tag=b1|Call-ID: 0123456789abcdef-2|CSeq: 1 ACK|Content-Length: 0|
at 0 to 1|SIP/2.0 100 Trying|Via: SIP/2.0/UDP 127.0.0.1:5071;branch=z9hG4bKd1|From: "Erin" <sip:erin@other.example>;tag=e1|To: <sip:vm@far.example>|Call-ID: call2
|CSeq: 5 INVITE|Content-Length: 0|
at 0 to 2|INVITE sip:vm@far.example SIP/2.0|Via: SIP/2.0/UDP 127.0.0.1:5060;branch=z9hG4bK0123456789abcdef-9|Max-Forwards: 67
|From: "Erin" <sip:erin@other.example>;tag=0123456789abcdef-8|To: <sip:vm@far.example>|Call-ID: 0123456789abcdef-7|CSeq: 1 INVITE|Contact: <sip:127.0.0.1:5060>
|Content-Length: 0|
at 0 to 1|SIP/2.0 180 Ringing|Via: SIP/2.0/UDP 127.0.0.1:5071;branch=z9hG4bKd1|From: "Erin" <sip:erin@other.example>;tag=e1
|To: <sip:vm@far.example>;tag=0123456789abcdef-6|Call-ID: call2|CSeq: 5 INVITE|Contact: <sip:127.0.0.1:5060>|Content-Length: 0|
at 89990 to 1|SIP/2.0 100 Trying|Via: SIP/2.0/UDP 127.0.0.1:5071;branch=z9hG4bKh1|From: "Alice" <sip:alice@home.example>;tag=t1
|To: <sip:bob@home.example>;tag=0123456789abcdef-1|Call-ID: call1|CSeq: 8 INVITE|Content-Length: 0|
at 89990 to 1|INVITE sip:bob1@127.0.0.1:5071 SIP/2.0|Via: SIP/2.0/UDP 127.0.0.1:5060;branch=z9hG4bK0123456789abcdef-10|Max-Forwards: 67
|From: "Alice" <sip:alice@home.example>;tag=0123456789abcdef-3|To: <sip:bob@home.example>;tag=b1|Call-ID: 0123456789abcdef-2|CSeq: 2 INVITE
|Contact: <sip:127.0.0.1:5060>|Content-Length: 0|
at 90000 to 1|SIP/2.0 200 OK|Via: SIP/2.0/UDP 127.0.0.1:5071;branch=z9hG4bKh1|From: "Alice" <sip:alice@home.example>;tag=t1
|To: <sip:bob@home.example>;tag=0123456789abcdef-1|Call-ID: call1|CSeq: 8 INVITE|Contact: <sip:127.0.0.1:5060>|Session-Expires: 90|Content-Length: 0|
at 90010 to 1|ACK sip:bob1@127.0.0.1:5071 SIP/2.0|Via: SIP/2.0/UDP 127.0.0.1:5060;branch=z9hG4bK0123456789abcdef-11|Max-Forwards: 67
|From: "Alice" <sip:alice@home.example>;tag=0123456789abcdef-3|To: <sip:bob@home.example>;tag=b1|Call-ID: 0123456789abcdef-2|CSeq: 2 ACK|Content-Length: 0|
at 180000 to 2|CANCEL sip:vm@far.example SIP/2.0|Via: SIP/2.0/UDP 127.0.0.1:5060;branch=z9hG4bK0123456789abcdef-9|Max-Forwards: 70
|From: "Erin" <sip:erin@other.example>;tag=0123456789abcdef-8|To: <sip:vm@far.example>|Call-ID: 0123456789abcdef-7|CSeq: 1 CANCEL|Content-Length: 0|
at 180000 to 1|SIP/2.0 480 Temporarily Unavailable|Via: SIP/2.0/UDP 127.0.0.1:5071;branch=z9hG4bKd1|From: "Erin" <sip:erin@other.example>;tag=e1
|To: <sip:vm@far.example>;tag=0123456789abcdef-6|Call-ID: call2|CSeq: 5 INVITE|Content-Length: 0|
at 180000 to 1|BYE sip:alice@127.0.0.1:5071 SIP/2.0|Via: SIP/2.0/UDP 127.0.0.1:5060;branch=z9hG4bK0123456789abcdef-12|Max-Forwards: 70
|From: <sip:bob@home.example>;tag=0123456789abcdef-1|To: "Alice" <sip:alice@home.example>;tag=t1|Call-ID: call1|CSeq: 1 BYE|Content-Length: 0|
at 180000 to 1|BYE sip:bob1@127.0.0.1:5071 SIP/2.0|Via: SIP/2.0/UDP 127.0.0.1:5060;branch=z9hG4bK0123456789abcdef-13|Max-Forwards: 70
|From: "Alice" <sip:alice@home.example>;tag=0123456789abcdef-3|To: <sip:bob@home.example>;tag=b1|Call-ID: 0123456789abcdef-2|CSeq: 3 BYE|Content-Length: 0|
~ A re-INVITE is answered without a session: the expiry that stood is no more.
=further:extension timer;
at 0 peer 1|INVITE sip:bob@home.example SIP/2.0|Via: SIP/2.0/UDP 127.0.0.1:5071;branch=z9hG4bKc1|Max-Forwards: 68|From: "Alice" <sip:alice@home.example>;tag=t1
|To: <sip:bob@home.example>|Call-ID: call1|CSeq: 7 INVITE|Contact: <sip:alice@127.0.0.1:5071>|P-Asserted-Identity: <sip:alice@home.example>|Content-Length: 0|
at 200 peer 1|SIP/2.0 200 OK|Via: SIP/2.0/UDP 127.0.0.1:5060;branch=z9hG4bK0123456789abcdef-4|From: "Alice" <sip:alice@home.example>;tag=0123456789abcdef-3
|To: <sip:bob@home.example>;tag=b1|Call-ID: 0123456789abcdef-2|CSeq: 1 INVITE|Contact: <sip:bob1@127.0.0.1:5071>|Session-Expires: 90|Content-Length: 0|
at 300 peer 1|ACK sip:127.0.0.1:5060 SIP/2.0|Via: SIP/2.0/UDP 127.0.0.1:5071;branch=z9hG4bKk1|Max-Forwards: 68|From: "Alice" <sip:alice@home.example>;tag=t1
|To: <sip:bob@home.example>;tag=0123456789abcdef-1|Call-ID: call1|CSeq: 7 ACK|Content-Length: 0|
at 50000 peer 1|INVITE sip:127.0.0.1:5060 SIP/2.0|Via: SIP/2.0/UDP 127.0.0.1:5071;branch=z9hG4bKh1|Max-Forwards: 68|From: "Alice" <sip:alice@home.example>;tag=t1
|To: <sip:bob@home.example>;tag=0123456789abcdef-1|Call-ID: call1|CSeq: 8 INVITE|Contact: <sip:alice@127.0.0.1:5071>|Content-Length: 0|
at 50010 peer 1|SIP/2.0 200 OK|Via: SIP/2.0/UDP 127.0.0.1:5060;branch=z9hG4bK0123456789abcdef-6|From: "Alice" <sip:alice@home.example>;tag=0123456789abcdef-3
|To: <sip:bob@home.example>;tag=b1|Call-ID: 0123456789abcdef-2|CSeq: 2 INVITE|Contact: <sip:bob1@127.0.0.1:5071>|Content-Length: 0|
at 50020 peer 1|ACK sip:127.0.0.1:5060 SIP/2.0|Via: SIP/2.0/UDP 127.0.0.1:5071;branch=z9hG4bKk2|Max-Forwards: 68|From: "Alice" <sip:alice@home.example>;tag=t1
|To: <sip:bob@home.example>;tag=0123456789abcdef-1|Call-ID: call1|CSeq: 8 ACK|Content-Length: 0|
at 300000 quiet
~ Nothing ends the call.
at 0 to 1|SIP/2.0 100 Trying|Via: SIP/2.0/UDP 127.0.0.1:5071;branch=z9hG4bKc1|From: "Alice" <sip:alice@home.example>;tag=t1|To: <sip:bob@home.example>|Call-ID: call1
|CSeq: 7 INVITE|Content-Length: 0|
at 0 to 1|INVITE sip:bob@home.example SIP/2.0|Via: SIP/2.0/UDP 127.0.0.1:5060;branch=z9hG4bK0123456789abcdef-4|Max-Forwards: 67
|From: "Alice" <sip:alice@home.example>;tag=0123456789abcdef-3|To: <sip:bob@home.example>|Call-ID: 0123456789abcdef-2|CSeq: 1 INVITE|Contact: <sip:127.0.0.1:5060>
|P-Asserted-Identity: <sip:alice@home.example>|Content-Length: 0|
at 200 to 1|SIP/2.0 200 OK|Via: SIP/2.0/UDP 127.0.0.1:5071;branch=z9hG4bKc1|From: "Alice" <sip:alice@home.example>;tag=t1
|To: <sip:bob@home.example>;tag=0123456789abcdef-1|Call-ID: call1|CSeq: 7 INVITE|Contact: <sip:127.0.0.1:5060>|Session-Expires: 90|Content-Length: 0|
at 300 to 1|ACK sip:bob1@127.0.0.1:5071 SIP/2.0|Via: SIP/2.0/UDP 127.0.0.1:5060;branch=z9hG4bK0123456789abcdef-5|Max-Forwards: 67
|From: "Alice" <sip:alice@home.example>;tag=0123456789abcdef-3|To: <sip:bob@home.example>;tag=b1|Call-ID: 0123456789abcdef-2|CSeq: 1 ACK|Content-Length: 0|
at 50000 to 1|SIP/2.0 100 Trying|Via: SIP/2.0/UDP 127.0.0.1:5071;branch=z9hG4bKh1|From: "Alice" <sip:alice@home.example>;tag=t1
|To: <sip:bob@home.example>;tag=0123456789abcdef-1|Call-ID: call1|CSeq: 8 INVITE|Content-Length: 0|
at 50000 to 1|INVITE sip:bob1@127.0.0.1:5071 SIP/2.0|Via: SIP/2.0/UDP 127.0.0.1:5060;branch=z9hG4bK0123456789abcdef-6|Max-Forwards: 67
|From: "Alice" <sip:alice@home.example>;tag=0123456789abcdef-3|To: <sip:bob@home.example>;tag=b1|Call-ID: 0123456789abcdef-2|CSeq: 2 INVITE
|Contact: <sip:127.0.0.1:5060>|Content-Length: 0|
at 50010 to 1|SIP/2.0 200 OK|Via: SIP/2.0/UDP 127.0.0.1:5071;branch=z9hG4bKh1|From: "Alice" <sip:alice@home.example>;tag=t1
|To: <sip:bob@home.example>;tag=0123456789abcdef-1|Call-ID: call1|CSeq: 8 INVITE|Contact: <sip:127.0.0.1:5060>|Content-Length: 0|
at 50020 to 1|ACK sip:bob1@127.0.0.1:5071 SIP/2.0|Via: SIP/2.0/UDP 127.0.0.1:5060;branch=z9hG4bK0123456789abcdef-7|Max-Forwards: 67
|From: "Alice" <sip:alice@home.example>;tag=0123456789abcdef-3|To: <sip:bob@home.example>;tag=b1|Call-ID: 0123456789abcdef-2|CSeq: 2 ACK|Content-Length: 0|
~ The same with one that cannot be read, which is passed all the same.
=further:extension timer;
at 0 peer 1|INVITE sip:bob@home.example SIP/2.0|Via: SIP/2.0/UDP 127.0.0.1:5071;branch=z9hG4bKc1|Max-Forwards: 68|From: "Alice" <sip:alice@home.example>;tag=t1
|To: <sip:bob@home.example>|Call-ID: call1|CSeq: 7 INVITE|Contact: <sip:alice@127.0.0.1:5071>|P-Asserted-Identity: <sip:alice@home.example>|Content-Length: 0|
at 200 peer 1|SIP/2.0 200 OK|Via: SIP/2.0/UDP 127.0.0.1:5060;branch=z9hG4bK0123456789abcdef-4|From: "Alice" <sip:alice@home.example>;tag=0123456789abcdef-3
|To: <sip:bob@home.example>;tag=b1|Call-ID: 0123456789abcdef-2|CSeq: 1 INVITE|Contact: <sip:bob1@127.0.0.1:5071>|Session-Expires: 90|Content-Length: 0|
at 300 peer 1|ACK sip:127.0.0.1:5060 SIP/2.0|Via: SIP/2.0/UDP 127.0.0.1:5071;branch=z9hG4bKk1|Max-Forwards: 68|From: "Alice" <sip:alice@home.example>;tag=t1
|To: <sip:bob@home.example>;tag=0123456789abcdef-1|Call-ID: call1|CSeq: 7 ACK|Content-Length: 0|
at 50000 peer 1|INVITE sip:127.0.0.1:5060 SIP/2.0|Via: SIP/2.0/UDP 127.0.0.1:5071;branch=z9hG4bKh1|Max-Forwards: 68|From: "Alice" <sip:alice@home.example>;tag=t1
|To: <sip:bob@home.example>;tag=0123456789abcdef-1|Call-ID: call1|CSeq: 8 INVITE|Contact: <sip:alice@127.0.0.1:5071>|Content-Length: 0|
at 50010 peer 1|SIP/2.0 200 OK|Via: SIP/2.0/UDP 127.0.0.1:5060;branch=z9hG4bK0123456789abcdef-6|From: "Alice" <sip:alice@home.example>;tag=0123456789abcdef-3
|To: <sip:bob@home.example>;tag=b1|Call-ID: 0123456789abcdef-2|CSeq: 2 INVITE|Contact: <sip:bob1@127.0.0.1:5071>|Session-Expires: 2147483648|Content-Length: 0|
at 50020 peer 1|ACK sip:127.0.0.1:5060 SIP/2.0|Via: SIP/2.0/UDP 127.0.0.1:5071;branch=z9hG4bKk2|Max-Forwards: 68|From: "Alice" <sip:alice@home.example>;tag=t1
|To: <sip:bob@home.example>;tag=0123456789abcdef-1|Call-ID: call1|CSeq: 8 ACK|Content-Length: 0|
at 300000 quiet
~ Its line goes back to alice, and nothing ends the call.
at 0 to 1|SIP/2.0 100 Trying|Via: SIP/2.0/UDP 127.0.0.1:5071;branch=z9hG4bKc1|From: "Alice" <sip:alice@home.example>;tag=t1|To: <sip:bob@home.example>|Call-ID: call1
|CSeq: 7 INVITE|Content-Length: 0|
at 0 to 1|INVITE sip:bob@home.example SIP/2.0|Via: SIP/2.0/UDP 127.0.0.1:5060;branch=z9hG4bK0123456789abcdef-4|Max-Forwards: 67
|From: "Alice" <sip:alice@home.example>;tag=0123456789abcdef-3|To: <sip:bob@home.example>|Call-ID: 0123456789abcdef-2|CSeq: 1 INVITE|Contact: <sip:127.0.0.1:5060>
|P-Asserted-Identity: <sip:alice@home.example>|Content-Length: 0|
at 200 to 1|SIP/2.0 200 OK|Via: SIP/2.0/UDP 127.0.0.1:5071;branch=z9hG4bKc1|From: "Alice" <sip:alice@home.example>;tag=t1
|To: <sip:bob@home.example>;tag=0123456789abcdef-1|Call-ID: call1|CSeq: 7 INVITE|Contact: <sip:127.0.0.1:5060>|Session-Expires: 90|Content-Length: 0|
at 300 to 1|ACK sip:bob1@127.0.0.1:5071 SIP/2.0|Via: SIP/2.0/UDP 127.0.0.1:5060;branch=z9hG4bK0123456789abcdef-5|Max-Forwards: 67
|From: "Alice" <sip:alice@home.example>;tag=0123456789abcdef-3|To: <sip:bob@home.example>;tag=b1|Call-ID: 0123456789abcdef-2|CSeq: 1 ACK|Content-Length: 0|
at 50000 to 1|SIP/2.0 100 Trying|Via: SIP/2.0/UDP 127.0.0.1:5071;branch=z9hG4bKh1|From: "Alice" <sip:alice@home.example>;tag=t1
|To: <sip:bob@home.example>;tag=0123456789abcdef-1|Call-ID: call1|CSeq: 8 INVITE|Content-Length: 0|
at 50000 to 1|INVITE sip:bob1@127.0.0.1:5071 SIP/2.0|Via: SIP/2.0/UDP 127.0.0.1:5060;branch=z9hG4bK0123456789abcdef-6|Max-Forwards: 67
|From: "Alice" <sip:alice@home.example>;tag=0123456789abcdef-3|To: <sip:bob@home.example>;tag=b1|Call-ID: 0123456789abcdef-2|CSeq: 2 INVITE
|Contact: <sip:127.0.0.1:5060>|Content-Length: 0|
at 50010 to 1|SIP/2.0 200 OK|Via: SIP/2.0/UDP 127.0.0.1:5071;branch=z9hG4bKh1|From: "Alice" <sip:alice@home.example>;tag=t1
|To: <sip:bob@home.example>;tag=0123456789abcdef-1|Call-ID: call1|CSeq: 8 INVITE|Contact: <sip:127.0.0.1:5060>|Session-Expires: 2147483648|Content-Length: 0|
at 50020 to 1|ACK sip:bob1@127.0.0.1:5071 SIP/2.0|Via: SIP/2.0/UDP 127.0.0.1:5060;branch=z9hG4bK0123456789abcdef-7|Max-Forwards: 67
|From: "Alice" <sip:alice@home.example>;tag=0123456789abcdef-3|To: <sip:bob@home.example>;tag=b1|Call-ID: 0123456789abcdef-2|CSeq: 2 ACK|Content-Length: 0|
~ A re-INVITE is refused: the expiry stays.
=further:extension timer;
at 0 peer 1|INVITE sip:bob@home.example SIP/2.0|Via: SIP/2.0/UDP 127.0.0.1:5071;branch=z9hG4bKc1|Max-Forwards: 68|From: "Alice" <sip:alice@home.example>;tag=t1
|To: <sip:bob@home.example>|Call-ID: call1|CSeq: 7 INVITE|Contact: <sip:alice@127.0.0.1:5071>|P-Asserted-Identity: <sip:alice@home.example>|Content-Length: 0|
at 200 peer 1|SIP/2.0 200 OK|Via: SIP/2.0/UDP 127.0.0.1:5060;branch=z9hG4bK0123456789abcdef-4|From: "Alice" <sip:alice@home.example>;tag=0123456789abcdef-3
|To: <sip:bob@home.example>;tag=b1|Call-ID: 0123456789abcdef-2|CSeq: 1 INVITE|Contact: <sip:bob1@127.0.0.1:5071>|Session-Expires: 90|Content-Length: 0|
at 300 peer 1|ACK sip:127.0.0.1:5060 SIP/2.0|Via: SIP/2.0/UDP 127.0.0.1:5071;branch=z9hG4bKk1|Max-Forwards: 68|From: "Alice" <sip:alice@home.example>;tag=t1
|To: <sip:bob@home.example>;tag=0123456789abcdef-1|Call-ID: call1|CSeq: 7 ACK|Content-Length: 0|
at 50000 peer 1|INVITE sip:127.0.0.1:5060 SIP/2.0|Via: SIP/2.0/UDP 127.0.0.1:5071;branch=z9hG4bKh1|Max-Forwards: 68|From: "Alice" <sip:alice@home.example>;tag=t1
|To: <sip:bob@home.example>;tag=0123456789abcdef-1|Call-ID: call1|CSeq: 8 INVITE|Contact: <sip:alice@127.0.0.1:5071>|Content-Length: 0|
at 50010 peer 1|SIP/2.0 488 Not Acceptable Here|Via: SIP/2.0/UDP 127.0.0.1:5060;branch=z9hG4bK0123456789abcdef-6
|From: "Alice" <sip:alice@home.example>;tag=0123456789abcdef-3|To: <sip:bob@home.example>;tag=b1|Call-ID: 0123456789abcdef-2|CSeq: 2 INVITE|Content-Length: 0|
at 50020 peer 1|ACK sip:127.0.0.1:5060 SIP/2.0|Via: SIP/2.0/UDP 127.0.0.1:5071;branch=z9hG4bKh1|Max-Forwards: 68|From: "Alice" <sip:alice@home.example>;tag=t1
|To: <sip:bob@home.example>;tag=0123456789abcdef-1|Call-ID: call1|CSeq: 8 ACK|Content-Length: 0|
at 90199 quiet
at 90200 quiet
~ The call ends when the first answer says.
at 0 to 1|SIP/2.0 100 Trying|Via: SIP/2.0/UDP 127.0.0.1:5071;branch=z9hG4bKc1|From: "Alice" <sip:alice@home.example>;tag=t1|To: <sip:bob@home.example>|Call-ID: call1
|CSeq: 7 INVITE|Content-Length: 0|
at 0 to 1|INVITE sip:bob@home.example SIP/2.0|Via: SIP/2.0/UDP 127.0.0.1:5060;branch=z9hG4bK0123456789abcdef-4|Max-Forwards: 67
|From: "Alice" <sip:alice@home.example>;tag=0123456789abcdef-3|To: <sip:bob@home.example>|Call-ID: 0123456789abcdef-2|CSeq: 1 INVITE|Contact: <sip:127.0.0.1:5060>
|P-Asserted-Identity: <sip:alice@home.example>|Content-Length: 0|
at 200 to 1|SIP/2.0 200 OK|Via: SIP/2.0/UDP 127.0.0.1:5071;branch=z9hG4bKc1|From: "Alice" <sip:alice@home.example>;tag=t1
|To: <sip:bob@home.example>;tag=0123456789abcdef-1|Call-ID: call1|CSeq: 7 INVITE|Contact: <sip:127.0.0.1:5060>|Session-Expires: 90|Content-Length: 0|
at 300 to 1|ACK sip:bob1@127.0.0.1:5071 SIP/2.0|Via: SIP/2.0/UDP 127.0.0.1:5060;branch=z9hG4bK0123456789abcdef-5|Max-Forwards: 67
|From: "Alice" <sip:alice@home.example>;tag=0123456789abcdef-3|To: <sip:bob@home.example>;tag=b1|Call-ID: 0123456789abcdef-2|CSeq: 1 ACK|Content-Length: 0|
at 50000 to 1|SIP/2.0 100 Trying|Via: SIP/2.0/UDP 127.0.0.1:5071;branch=z9hG4bKh1|From: "Alice" <sip:alice@home.example>;tag=t1
|To: <sip:bob@home.example>;tag=0123456789abcdef-1|Call-ID: call1|CSeq: 8 INVITE|Content-Length: 0|
at 50000 to 1|INVITE sip:bob1@127.0.0.1:5071 SIP/2.0|Via: SIP/2.0/UDP 127.0.0.1:5060;branch=z9hG4bK0123456789abcdef-6|Max-Forwards: 67
|From: "Alice" <sip:alice@home.example>;tag=0123456789abcdef-3|To: <sip:bob@home.example>;tag=b1|Call-ID: 0123456789abcdef-2|CSeq: 2 INVITE
|Contact: <sip:127.0.0.1:5060>|Content-Length: 0|
at 50010 to 1|ACK sip:bob1@127.0.0.1:5071 SIP/2.0|Via: SIP/2.0/UDP 127.0.0.1:5060;branch=z9hG4bK0123456789abcdef-6|Max-Forwards: 70
|From: "Alice" <sip:alice@home.example>;tag=0123456789abcdef-3|To: <sip:bob@home.example>;tag=b1|Call-ID: 0123456789abcdef-2|CSeq: 2 ACK|Content-Length: 0|
at 50010 to 1|SIP/2.0 488 Not Acceptable Here|Via: SIP/2.0/UDP 127.0.0.1:5071;branch=z9hG4bKh1|From: "Alice" <sip:alice@home.example>;tag=t1
|To: <sip:bob@home.example>;tag=0123456789abcdef-1|Call-ID: call1|CSeq: 8 INVITE|Content-Length: 0|
at 90200 to 1|BYE sip:alice@127.0.0.1:5071 SIP/2.0|Via: SIP/2.0/UDP 127.0.0.1:5060;branch=z9hG4bK0123456789abcdef-7|Max-Forwards: 70
|From: <sip:bob@home.example>;tag=0123456789abcdef-1|To: "Alice" <sip:alice@home.example>;tag=t1|Call-ID: call1|CSeq: 1 BYE|Content-Length: 0|
at 90200 to 1|BYE sip:bob1@127.0.0.1:5071 SIP/2.0|Via: SIP/2.0/UDP 127.0.0.1:5060;branch=z9hG4bK0123456789abcdef-8|Max-Forwards: 70
|From: "Alice" <sip:alice@home.example>;tag=0123456789abcdef-3|To: <sip:bob@home.example>;tag=b1|Call-ID: 0123456789abcdef-2|CSeq: 3 BYE|Content-Length: 0|
~ A re-INVITE was answered just before the session expires, and its ACK comes behind that moment: the new answer counts, which says nothing of a session.
=further:extension timer;
at 0 peer 1|INVITE sip:bob@home.example SIP/2.0|Via: SIP/2.0/UDP 127.0.0.1:5071;branch=z9hG4bKc1|Max-Forwards: 68|From: "Alice" <sip:alice@home.example>;tag=t1
|To: <sip:bob@home.example>|Call-ID: call1|CSeq: 7 INVITE|Contact: <sip:alice@127.0.0.1:5071>|P-Asserted-Identity: <sip:alice@home.example>|Content-Length: 0|
at 200 peer 1|SIP/2.0 200 OK|Via: SIP/2.0/UDP 127.0.0.1:5060;branch=z9hG4bK0123456789abcdef-4|From: "Alice" <sip:alice@home.example>;tag=0123456789abcdef-3
|To: <sip:bob@home.example>;tag=b1|Call-ID: 0123456789abcdef-2|CSeq: 1 INVITE|Contact: <sip:bob1@127.0.0.1:5071>|Session-Expires: 90|Content-Length: 0|
at 300 peer 1|ACK sip:127.0.0.1:5060 SIP/2.0|Via: SIP/2.0/UDP 127.0.0.1:5071;branch=z9hG4bKk1|Max-Forwards: 68|From: "Alice" <sip:alice@home.example>;tag=t1
|To: <sip:bob@home.example>;tag=0123456789abcdef-1|Call-ID: call1|CSeq: 7 ACK|Content-Length: 0|
at 90100 peer 1|INVITE sip:127.0.0.1:5060 SIP/2.0|Via: SIP/2.0/UDP 127.0.0.1:5071;branch=z9hG4bKh1|Max-Forwards: 68|From: "Alice" <sip:alice@home.example>;tag=t1
|To: <sip:bob@home.example>;tag=0123456789abcdef-1|Call-ID: call1|CSeq: 8 INVITE|Contact: <sip:alice@127.0.0.1:5071>|Content-Length: 0|
at 90150 peer 1|SIP/2.0 200 OK|Via: SIP/2.0/UDP 127.0.0.1:5060;branch=z9hG4bK0123456789abcdef-6|From: "Alice" <sip:alice@home.example>;tag=0123456789abcdef-3
|To: <sip:bob@home.example>;tag=b1|Call-ID: 0123456789abcdef-2|CSeq: 2 INVITE|Contact: <sip:bob1@127.0.0.1:5071>|Content-Length: 0|
at 90200 quiet
at 90210 peer 1|ACK sip:127.0.0.1:5060 SIP/2.0|Via: SIP/2.0/UDP 127.0.0.1:5071;branch=z9hG4bKk2|Max-Forwards: 68|From: "Alice" <sip:alice@home.example>;tag=t1
|To: <sip:bob@home.example>;tag=0123456789abcdef-1|Call-ID: call1|CSeq: 8 ACK|Content-Length: 0|
at 90300 quiet
~ The moment of the earlier one brings nothing, and the call goes on.
at 0 to 1|SIP/2.0 100 Trying|Via: SIP/2.0/UDP 127.0.0.1:5071;branch=z9hG4bKc1|From: "Alice" <sip:alice@home.example>;tag=t1|To: <sip:bob@home.example>|Call-ID: call1
|CSeq: 7 INVITE|Content-Length: 0|
at 0 to 1|INVITE sip:bob@home.example SIP/2.0|Via: SIP/2.0/UDP 127.0.0.1:5060;branch=z9hG4bK0123456789abcdef-4|Max-Forwards: 67
|From: "Alice" <sip:alice@home.example>;tag=0123456789abcdef-3|To: <sip:bob@home.example>|Call-ID: 0123456789abcdef-2|CSeq: 1 INVITE|Contact: <sip:127.0.0.1:5060>
|P-Asserted-Identity: <sip:alice@home.example>|Content-Length: 0|
at 200 to 1|SIP/2.0 200 OK|Via: SIP/2.0/UDP 127.0.0.1:5071;branch=z9hG4bKc1|From: "Alice" <sip:alice@home.example>;tag=t1
|To: <sip:bob@home.example>;tag=0123456789abcdef-1|Call-ID: call1|CSeq: 7 INVITE|Contact: <sip:127.0.0.1:5060>|Session-Expires: 90|Content-Length: 0|
at 300 to 1|ACK sip:bob1@127.0.0.1:5071 SIP/2.0|Via: SIP/2.0/UDP 127.0.0.1:5060;branch=z9hG4bK0123456789abcdef-5|Max-Forwards: 67
|From: "Alice" <sip:alice@home.example>;tag=0123456789abcdef-3|To: <sip:bob@home.example>;tag=b1|Call-ID: 0123456789abcdef-2|CSeq: 1 ACK|Content-Length: 0|
at 90100 to 1|SIP/2.0 100 Trying|Via: SIP/2.0/UDP 127.0.0.1:5071;branch=z9hG4bKh1|From: "Alice" <sip:alice@home.example>;tag=t1
|To: <sip:bob@home.example>;tag=0123456789abcdef-1|Call-ID: call1|CSeq: 8 INVITE|Content-Length: 0|
at 90100 to 1|INVITE sip:bob1@127.0.0.1:5071 SIP/2.0|Via: SIP/2.0/UDP 127.0.0.1:5060;branch=z9hG4bK0123456789abcdef-6|Max-Forwards: 67
|From: "Alice" <sip:alice@home.example>;tag=0123456789abcdef-3|To: <sip:bob@home.example>;tag=b1|Call-ID: 0123456789abcdef-2|CSeq: 2 INVITE
|Contact: <sip:127.0.0.1:5060>|Content-Length: 0|
at 90150 to 1|SIP/2.0 200 OK|Via: SIP/2.0/UDP 127.0.0.1:5071;branch=z9hG4bKh1|From: "Alice" <sip:alice@home.example>;tag=t1
|To: <sip:bob@home.example>;tag=0123456789abcdef-1|Call-ID: call1|CSeq: 8 INVITE|Contact: <sip:127.0.0.1:5060>|Content-Length: 0|
at 90210 to 1|ACK sip:bob1@127.0.0.1:5071 SIP/2.0|Via: SIP/2.0/UDP 127.0.0.1:5060;branch=z9hG4bK0123456789abcdef-7|Max-Forwards: 67
|From: "Alice" <sip:alice@home.example>;tag=0123456789abcdef-3|To: <sip:bob@home.example>;tag=b1|Call-ID: 0123456789abcdef-2|CSeq: 2 ACK|Content-Length: 0|
~ A re-INVITE without a provisional response is cancelled, and then the session expires; a provisional response comes late, and a 2xx.
=further:extension timer;
at 0 peer 1|INVITE sip:bob@home.example SIP/2.0|Via: SIP/2.0/UDP 127.0.0.1:5071;branch=z9hG4bKc1|Max-Forwards: 68|From: "Alice" <sip:alice@home.example>;tag=t1
|To: <sip:bob@home.example>|Call-ID: call1|CSeq: 7 INVITE|Contact: <sip:alice@127.0.0.1:5071>|P-Asserted-Identity: <sip:alice@home.example>|Content-Length: 0|
at 200 peer 1|SIP/2.0 200 OK|Via: SIP/2.0/UDP 127.0.0.1:5060;branch=z9hG4bK0123456789abcdef-4|From: "Alice" <sip:alice@home.example>;tag=0123456789abcdef-3
|To: <sip:bob@home.example>;tag=b1|Call-ID: 0123456789abcdef-2|CSeq: 1 INVITE|Contact: <sip:bob1@127.0.0.1:5071>|Session-Expires: 30|Content-Length: 0|
at 300 peer 1|ACK sip:127.0.0.1:5060 SIP/2.0|Via: SIP/2.0/UDP 127.0.0.1:5071;branch=z9hG4bKk1|Max-Forwards: 68|From: "Alice" <sip:alice@home.example>;tag=t1
|To: <sip:bob@home.example>;tag=0123456789abcdef-1|Call-ID: call1|CSeq: 7 ACK|Content-Length: 0|
at 90000 peer 1|INVITE sip:127.0.0.1:5060 SIP/2.0|Via: SIP/2.0/UDP 127.0.0.1:5071;branch=z9hG4bKh1|Max-Forwards: 68|From: "Alice" <sip:alice@home.example>;tag=t1
|To: <sip:bob@home.example>;tag=0123456789abcdef-1|Call-ID: call1|CSeq: 8 INVITE|Contact: <sip:alice@127.0.0.1:5071>|Content-Length: 0|
at 90100 peer 1|CANCEL sip:127.0.0.1:5060 SIP/2.0|Via: SIP/2.0/UDP 127.0.0.1:5071;branch=z9hG4bKh1|Max-Forwards: 68|From: "Alice" <sip:alice@home.example>;tag=t1
|To: <sip:bob@home.example>;tag=0123456789abcdef-1|Call-ID: call1|CSeq: 8 CANCEL|Content-Length: 0|
at 90200 quiet
at 90210 peer 1|SIP/2.0 180 Ringing|Via: SIP/2.0/UDP 127.0.0.1:5060;branch=z9hG4bK0123456789abcdef-6|From: "Alice" <sip:alice@home.example>;tag=0123456789abcdef-3
|To: <sip:bob@home.example>;tag=b1|Call-ID: 0123456789abcdef-2|CSeq: 2 INVITE|Content-Length: 0|
at 90220 peer 1|SIP/2.0 200 OK|Via: SIP/2.0/UDP 127.0.0.1:5060;branch=z9hG4bK0123456789abcdef-6|From: "Alice" <sip:alice@home.example>;tag=0123456789abcdef-3
|To: <sip:bob@home.example>;tag=b1|Call-ID: 0123456789abcdef-2|CSeq: 2 INVITE|Contact: <sip:bob1@127.0.0.1:5071>|Content-Length: 0|
at 90230 quiet
~ 487, and BYE to both sides; then CANCEL, and ACK without a further BYE.
at 0 to 1|SIP/2.0 100 Trying|Via: SIP/2.0/UDP 127.0.0.1:5071;branch=z9hG4bKc1|From: "Alice" <sip:alice@home.example>;tag=t1|To: <sip:bob@home.example>|Call-ID: call1
|CSeq: 7 INVITE|Content-Length: 0|
at 0 to 1|INVITE sip:bob@home.example SIP/2.0|Via: SIP/2.0/UDP 127.0.0.1:5060;branch=z9hG4bK0123456789abcdef-4|Max-Forwards: 67
|From: "Alice" <sip:alice@home.example>;tag=0123456789abcdef-3|To: <sip:bob@home.example>|Call-ID: 0123456789abcdef-2|CSeq: 1 INVITE|Contact: <sip:127.0.0.1:5060>
|P-Asserted-Identity: <sip:alice@home.example>|Content-Length: 0|
at 200 to 1|SIP/2.0 200 OK|Via: SIP/2.0/UDP 127.0.0.1:5071;branch=z9hG4bKc1|From: "Alice" <sip:alice@home.example>;tag=t1
|To: <sip:bob@home.example>;tag=0123456789abcdef-1|Call-ID: call1|CSeq: 7 INVITE|Contact: <sip:127.0.0.1:5060>|Session-Expires: 30|Content-Length: 0|
at 300 to 1|ACK sip:bob1@127.0.0.1:5071 SIP/2.0|Via: SIP/2.0/UDP 127.0.0.1:5060;branch=z9hG4bK0123456789abcdef-5|Max-Forwards: 67
|From: "Alice" <sip:alice@home.example>;tag=0123456789abcdef-3|To: <sip:bob@home.example>;tag=b1|Call-ID: 0123456789abcdef-2|CSeq: 1 ACK|Content-Length: 0|
at 90000 to 1|SIP/2.0 100 Trying|Via: SIP/2.0/UDP 127.0.0.1:5071;branch=z9hG4bKh1|From: "Alice" <sip:alice@home.example>;tag=t1
|To: <sip:bob@home.example>;tag=0123456789abcdef-1|Call-ID: call1|CSeq: 8 INVITE|Content-Length: 0|
at 90000 to 1|INVITE sip:bob1@127.0.0.1:5071 SIP/2.0|Via: SIP/2.0/UDP 127.0.0.1:5060;branch=z9hG4bK0123456789abcdef-6|Max-Forwards: 67
|From: "Alice" <sip:alice@home.example>;tag=0123456789abcdef-3|To: <sip:bob@home.example>;tag=b1|Call-ID: 0123456789abcdef-2|CSeq: 2 INVITE
|Contact: <sip:127.0.0.1:5060>|Content-Length: 0|
at 90100 to 1|SIP/2.0 200 OK|Via: SIP/2.0/UDP 127.0.0.1:5071;branch=z9hG4bKh1|From: "Alice" <sip:alice@home.example>;tag=t1
|To: <sip:bob@home.example>;tag=0123456789abcdef-1|Call-ID: call1|CSeq: 8 CANCEL|Content-Length: 0|
at 90200 to 1|SIP/2.0 487 Request Terminated|Via: SIP/2.0/UDP 127.0.0.1:5071;branch=z9hG4bKh1|From: "Alice" <sip:alice@home.example>;tag=t1
|To: <sip:bob@home.example>;tag=0123456789abcdef-1|Call-ID: call1|CSeq: 8 INVITE|Content-Length: 0|
at 90200 to 1|BYE sip:alice@127.0.0.1:5071 SIP/2.0|Via: SIP/2.0/UDP 127.0.0.1:5060;branch=z9hG4bK0123456789abcdef-7|Max-Forwards: 70
|From: <sip:bob@home.example>;tag=0123456789abcdef-1|To: "Alice" <sip:alice@home.example>;tag=t1|Call-ID: call1|CSeq: 1 BYE|Content-Length: 0|
at 90200 to 1|BYE sip:bob1@127.0.0.1:5071 SIP/2.0|Via: SIP/2.0/UDP 127.0.0.1:5060;branch=z9hG4bK0123456789abcdef-8|Max-Forwards: 70
|From: "Alice" <sip:alice@home.example>;tag=0123456789abcdef-3|To: <sip:bob@home.example>;tag=b1|Call-ID: 0123456789abcdef-2|CSeq: 3 BYE|Content-Length: 0|
at 90210 to 1|CANCEL sip:bob1@127.0.0.1:5071 SIP/2.0|Via: SIP/2.0/UDP 127.0.0.1:5060;branch=z9hG4bK0123456789abcdef-6|Max-Forwards: 70
|From: "Alice" <sip:alice@home.example>;tag=0123456789abcdef-3|To: <sip:bob@home.example>;tag=b1|Call-ID: 0123456789abcdef-2|CSeq: 2 CANCEL|Content-Length: 0|
at 90220 to 1|ACK sip:bob1@127.0.0.1:5071 SIP/2.0|Via: SIP/2.0/UDP 127.0.0.1:5060;branch=z9hG4bK0123456789abcdef-9|Max-Forwards: 70
|From: "Alice" <sip:alice@home.example>;tag=0123456789abcdef-3|To: <sip:bob@home.example>;tag=b1|Call-ID: 0123456789abcdef-2|CSeq: 2 ACK|Content-Length: 0|
~ The answer comes again without its line, and then another dialog answers, with a longer session.
=further:extension timer;
at 0 peer 1|INVITE sip:bob@home.example SIP/2.0|Via: SIP/2.0/UDP 127.0.0.1:5071;branch=z9hG4bKc1|Max-Forwards: 68|From: "Alice" <sip:alice@home.example>;tag=t1
|To: <sip:bob@home.example>|Call-ID: call1|CSeq: 7 INVITE|Contact: <sip:alice@127.0.0.1:5071>|P-Asserted-Identity: <sip:alice@home.example>|Content-Length: 0|
at 200 peer 1|SIP/2.0 200 OK|Via: SIP/2.0/UDP 127.0.0.1:5060;branch=z9hG4bK0123456789abcdef-4|From: "Alice" <sip:alice@home.example>;tag=0123456789abcdef-3
|To: <sip:bob@home.example>;tag=b1|Call-ID: 0123456789abcdef-2|CSeq: 1 INVITE|Contact: <sip:bob1@127.0.0.1:5071>|Session-Expires: 90|Content-Length: 0|
at 300 peer 1|ACK sip:127.0.0.1:5060 SIP/2.0|Via: SIP/2.0/UDP 127.0.0.1:5071;branch=z9hG4bKk1|Max-Forwards: 68|From: "Alice" <sip:alice@home.example>;tag=t1
|To: <sip:bob@home.example>;tag=0123456789abcdef-1|Call-ID: call1|CSeq: 7 ACK|Content-Length: 0|
at 400 peer 1|SIP/2.0 200 OK|Via: SIP/2.0/UDP 127.0.0.1:5060;branch=z9hG4bK0123456789abcdef-4|From: "Alice" <sip:alice@home.example>;tag=0123456789abcdef-3
|To: <sip:bob@home.example>;tag=b1|Call-ID: 0123456789abcdef-2|CSeq: 1 INVITE|Contact: <sip:bob1@127.0.0.1:5071>|Content-Length: 0|
at 500 peer 1|SIP/2.0 200 OK|Via: SIP/2.0/UDP 127.0.0.1:5060;branch=z9hG4bK0123456789abcdef-4|From: "Alice" <sip:alice@home.example>;tag=0123456789abcdef-3
|To: <sip:bob@home.example>;tag=zz|Call-ID: 0123456789abcdef-2|CSeq: 1 INVITE|Contact: <sip:fork@127.0.0.1:5071>|Session-Expires: 1000|Content-Length: 0|
at 510 peer 1|SIP/2.0 200 OK|Via: SIP/2.0/UDP 127.0.0.1:5060;branch=z9hG4bK0123456789abcdef-7|From: "Alice" <sip:alice@home.example>;tag=0123456789abcdef-3
|To: <sip:bob@home.example>;tag=zz|Call-ID: 0123456789abcdef-2|CSeq: 2 BYE|Content-Length: 0|
at 90199 quiet
at 90200 quiet
~ Neither is relayed, so neither counts: the session expires 90 seconds after the first.
at 0 to 1|SIP/2.0 100 Trying|Via: SIP/2.0/UDP 127.0.0.1:5071;branch=z9hG4bKc1|From: "Alice" <sip:alice@home.example>;tag=t1|To: <sip:bob@home.example>|Call-ID: call1
|CSeq: 7 INVITE|Content-Length: 0|
at 0 to 1|INVITE sip:bob@home.example SIP/2.0|Via: SIP/2.0/UDP 127.0.0.1:5060;branch=z9hG4bK0123456789abcdef-4|Max-Forwards: 67
|From: "Alice" <sip:alice@home.example>;tag=0123456789abcdef-3|To: <sip:bob@home.example>|Call-ID: 0123456789abcdef-2|CSeq: 1 INVITE|Contact: <sip:127.0.0.1:5060>
|P-Asserted-Identity: <sip:alice@home.example>|Content-Length: 0|
at 200 to 1|SIP/2.0 200 OK|Via: SIP/2.0/UDP 127.0.0.1:5071;branch=z9hG4bKc1|From: "Alice" <sip:alice@home.example>;tag=t1
|To: <sip:bob@home.example>;tag=0123456789abcdef-1|Call-ID: call1|CSeq: 7 INVITE|Contact: <sip:127.0.0.1:5060>|Session-Expires: 90|Content-Length: 0|
at 300 to 1|ACK sip:bob1@127.0.0.1:5071 SIP/2.0|Via: SIP/2.0/UDP 127.0.0.1:5060;branch=z9hG4bK0123456789abcdef-5|Max-Forwards: 67
|From: "Alice" <sip:alice@home.example>;tag=0123456789abcdef-3|To: <sip:bob@home.example>;tag=b1|Call-ID: 0123456789abcdef-2|CSeq: 1 ACK|Content-Length: 0|
at 400 to 1|ACK sip:bob1@127.0.0.1:5071 SIP/2.0|Via: SIP/2.0/UDP 127.0.0.1:5060;branch=z9hG4bK0123456789abcdef-5|Max-Forwards: 67
|From: "Alice" <sip:alice@home.example>;tag=0123456789abcdef-3|To: <sip:bob@home.example>;tag=b1|Call-ID: 0123456789abcdef-2|CSeq: 1 ACK|Content-Length: 0|
at 500 to 1|ACK sip:fork@127.0.0.1:5071 SIP/2.0|Via: SIP/2.0/UDP 127.0.0.1:5060;branch=z9hG4bK0123456789abcdef-6|Max-Forwards: 70
|From: "Alice" <sip:alice@home.example>;tag=0123456789abcdef-3|To: <sip:bob@home.example>;tag=zz|Call-ID: 0123456789abcdef-2|CSeq: 1 ACK|Content-Length: 0|
at 500 to 1|BYE sip:fork@127.0.0.1:5071 SIP/2.0|Via: SIP/2.0/UDP 127.0.0.1:5060;branch=z9hG4bK0123456789abcdef-7|Max-Forwards: 70
|From: "Alice" <sip:alice@home.example>;tag=0123456789abcdef-3|To: <sip:bob@home.example>;tag=zz|Call-ID: 0123456789abcdef-2|CSeq: 2 BYE|Content-Length: 0|
at 90200 to 1|BYE sip:alice@127.0.0.1:5071 SIP/2.0|Via: SIP/2.0/UDP 127.0.0.1:5060;branch=z9hG4bK0123456789abcdef-8|Max-Forwards: 70
|From: <sip:bob@home.example>;tag=0123456789abcdef-1|To: "Alice" <sip:alice@home.example>;tag=t1|Call-ID: call1|CSeq: 1 BYE|Content-Length: 0|
at 90200 to 1|BYE sip:bob1@127.0.0.1:5071 SIP/2.0|Via: SIP/2.0/UDP 127.0.0.1:5060;branch=z9hG4bK0123456789abcdef-9|Max-Forwards: 70
|From: "Alice" <sip:alice@home.example>;tag=0123456789abcdef-3|To: <sip:bob@home.example>;tag=b1|Call-ID: 0123456789abcdef-2|CSeq: 2 BYE|Content-Length: 0|
~ An answer gives 90 seconds. 58 seconds later another call is answered, and nobody acknowledges that.
=further:extension timer;
at 0 peer 1|INVITE sip:bob@home.example SIP/2.0|Via: SIP/2.0/UDP 127.0.0.1:5071;branch=z9hG4bKc1|Max-Forwards: 68|From: "Alice" <sip:alice@home.example>;tag=t1
|To: <sip:bob@home.example>|Call-ID: call1|CSeq: 7 INVITE|Contact: <sip:alice@127.0.0.1:5071>|P-Asserted-Identity: <sip:alice@home.example>|Content-Length: 0|
at 0 peer 1|SIP/2.0 200 OK|Via: SIP/2.0/UDP 127.0.0.1:5060;branch=z9hG4bK0123456789abcdef-4|From: "Alice" <sip:alice@home.example>;tag=0123456789abcdef-3
|To: <sip:bob@home.example>;tag=b1|Call-ID: 0123456789abcdef-2|CSeq: 1 INVITE|Contact: <sip:bob1@127.0.0.1:5071>|Session-Expires: 90|Content-Length: 0|
at 0 peer 1|ACK sip:127.0.0.1:5060 SIP/2.0|Via: SIP/2.0/UDP 127.0.0.1:5071;branch=z9hG4bKk1|Max-Forwards: 68|From: "Alice" <sip:alice@home.example>;tag=t1
|To: <sip:bob@home.example>;tag=0123456789abcdef-1|Call-ID: call1|CSeq: 7 ACK|Content-Length: 0|
at 57990 peer 1|INVITE sip:vm@far.example SIP/2.0|Via: SIP/2.0/UDP 127.0.0.1:5071;branch=z9hG4bKd1|Max-Forwards: 68|From: "Erin" <sip:erin@other.example>;tag=e1
|To: <sip:vm@far.example>|Call-ID: call2|CSeq: 5 INVITE|Contact: <sip:erin@127.0.0.1:5071>|Content-Length: 0|
at 58000 peer 2|SIP/2.0 200 OK|Via: SIP/2.0/UDP 127.0.0.1:5060;branch=z9hG4bK0123456789abcdef-9|From: "Erin" <sip:erin@other.example>;tag=0123456789abcdef-8
|To: <sip:vm@far.example>;tag=v1|Call-ID: 0123456789abcdef-7|CSeq: 1 INVITE|Contact: <sip:vm@127.0.0.1:5072>|Content-Length: 0|
at 90000 quiet
~ Both end at one moment, in the order in which they were answered.
at 0 to 1|SIP/2.0 100 Trying|Via: SIP/2.0/UDP 127.0.0.1:5071;branch=z9hG4bKc1|From: "Alice" <sip:alice@home.example>;tag=t1|To: <sip:bob@home.example>|Call-ID: call1
|CSeq: 7 INVITE|Content-Length: 0|
at 0 to 1|INVITE sip:bob@home.example SIP/2.0|Via: SIP/2.0/UDP 127.0.0.1:5060;branch=z9hG4bK0123456789abcdef-4|Max-Forwards: 67
|From: "Alice" <sip:alice@home.example>;tag=0123456789abcdef-3|To: <sip:bob@home.example>|Call-ID: 0123456789abcdef-2|CSeq: 1 INVITE|Contact: <sip:127.0.0.1:5060>
|P-Asserted-Identity: <sip:alice@home.example>|Content-Length: 0|
at 0 to 1|SIP/2.0 200 OK|Via: SIP/2.0/UDP 127.0.0.1:5071;branch=z9hG4bKc1|From: "Alice" <sip:alice@home.example>;tag=t1
|To: <sip:bob@home.example>;tag=0123456789abcdef-1|Call-ID: call1|CSeq: 7 INVITE|Contact: <sip:127.0.0.1:5060>|Session-Expires: 90|Content-Length: 0|
at 0 to 1|ACK sip:bob1@127.0.0.1:5071 SIP/2.0|Via: SIP/2.0/UDP 127.0.0.1:5060;branch=z9hG4bK0123456789abcdef-5|Max-Forwards: 67
|From: "Alice" <sip:alice@home.example>;tag=0123456789abcdef-3|To: <sip:bob@home.example>;tag=b1|Call-ID: 0123456789abcdef-2|CSeq: 1 ACK|Content-Length: 0|
at 57990 to 1|SIP/2.0 100 Trying|Via: SIP/2.0/UDP 127.0.0.1:5071;branch=z9hG4bKd1|From: "Erin" <sip:erin@other.example>;tag=e1|To: <sip:vm@far.example>|Call-ID: call2
|CSeq: 5 INVITE|Content-Length: 0|
at 57990 to 2|INVITE sip:vm@far.example SIP/2.0|Via: SIP/2.0/UDP 127.0.0.1:5060;branch=z9hG4bK0123456789abcdef-9|Max-Forwards: 67
|From: "Erin" <sip:erin@other.example>;tag=0123456789abcdef-8|To: <sip:vm@far.example>|Call-ID: 0123456789abcdef-7|CSeq: 1 INVITE|Contact: <sip:127.0.0.1:5060>
|Content-Length: 0|
at 58000 to 1|SIP/2.0 200 OK|Via: SIP/2.0/UDP 127.0.0.1:5071;branch=z9hG4bKd1|From: "Erin" <sip:erin@other.example>;tag=e1
|To: <sip:vm@far.example>;tag=0123456789abcdef-6|Call-ID: call2|CSeq: 5 INVITE|Contact: <sip:127.0.0.1:5060>|Content-Length: 0|
at 58500 to 1|SIP/2.0 200 OK|Via: SIP/2.0/UDP 127.0.0.1:5071;branch=z9hG4bKd1|From: "Erin" <sip:erin@other.example>;tag=e1
|To: <sip:vm@far.example>;tag=0123456789abcdef-6|Call-ID: call2|CSeq: 5 INVITE|Contact: <sip:127.0.0.1:5060>|Content-Length: 0|
at 59500 to 1|SIP/2.0 200 OK|Via: SIP/2.0/UDP 127.0.0.1:5071;branch=z9hG4bKd1|From: "Erin" <sip:erin@other.example>;tag=e1
|To: <sip:vm@far.example>;tag=0123456789abcdef-6|Call-ID: call2|CSeq: 5 INVITE|Contact: <sip:127.0.0.1:5060>|Content-Length: 0|
at 61500 to 1|SIP/2.0 200 OK|Via: SIP/2.0/UDP 127.0.0.1:5071;branch=z9hG4bKd1|From: "Erin" <sip:erin@other.example>;tag=e1
|To: <sip:vm@far.example>;tag=0123456789abcdef-6|Call-ID: call2|CSeq: 5 INVITE|Contact: <sip:127.0.0.1:5060>|Content-Length: 0|
at 65500 to 1|SIP/2.0 200 OK|Via: SIP/2.0/UDP 127.0.0.1:5071;branch=z9hG4bKd1|From: "Erin" <sip:erin@other.example>;tag=e1
|To: <sip:vm@far.example>;tag=0123456789abcdef-6|Call-ID: call2|CSeq: 5 INVITE|Contact: <sip:127.0.0.1:5060>|Content-Length: 0|
at 69500 to 1|SIP/2.0 200 OK|Via: SIP/2.0/UDP 127.0.0.1:5071;branch=z9hG4bKd1|From: "Erin" <sip:erin@other.example>;tag=e1
|To: <sip:vm@far.example>;tag=0123456789abcdef-6|Call-ID: call2|CSeq: 5 INVITE|Contact: <sip:127.0.0.1:5060>|Content-Length: 0|
at 73500 to 1|SIP/2.0 200 OK|Via: SIP/2.0/UDP 127.0.0.1:5071;branch=z9hG4bKd1|From: "Erin" <sip:erin@other.example>;tag=e1
|To: <sip:vm@far.example>;tag=0123456789abcdef-6|Call-ID: call2|CSeq: 5 INVITE|Contact: <sip:127.0.0.1:5060>|Content-Length: 0|
at 77500 to 1|SIP/2.0 200 OK|Via: SIP/2.0/UDP 127.0.0.1:5071;branch=z9hG4bKd1|From: "Erin" <sip:erin@other.example>;tag=e1
|To: <sip:vm@far.example>;tag=0123456789abcdef-6|Call-ID: call2|CSeq: 5 INVITE|Contact: <sip:127.0.0.1:5060>|Content-Length: 0|
at 81500 to 1|SIP/2.0 200 OK|Via: SIP/2.0/UDP 127.0.0.1:5071;branch=z9hG4bKd1|From: "Erin" <sip:erin@other.example>;tag=e1
|To: <sip:vm@far.example>;tag=0123456789abcdef-6|Call-ID: call2|CSeq: 5 INVITE|Contact: <sip:127.0.0.1:5060>|Content-Length: 0|
at 85500 to 1|SIP/2.0 200 OK|Via: SIP/2.0/UDP 127.0.0.1:5071;branch=z9hG4bKd1|From: "Erin" <sip:erin@other.example>;tag=e1
|To: <sip:vm@far.example>;tag=0123456789abcdef-6|Call-ID: call2|CSeq: 5 INVITE|Contact: <sip:127.0.0.1:5060>|Content-Length: 0|
at 89500 to 1|SIP/2.0 200 OK|Via: SIP/2.0/UDP 127.0.0.1:5071;branch=z9hG4bKd1|From: "Erin" <sip:erin@other.example>;tag=e1
|To: <sip:vm@far.example>;tag=0123456789abcdef-6|Call-ID: call2|CSeq: 5 INVITE|Contact: <sip:127.0.0.1:5060>|Content-Length: 0|
at 90000 to 1|BYE sip:alice@127.0.0.1:5071 SIP/2.0|Via: SIP/2.0/UDP 127.0.0.1:5060;branch=z9hG4bK0123456789abcdef-10|Max-Forwards: 70
|From: <sip:bob@home.example>;tag=0123456789abcdef-1|To: "Alice" <sip:alice@home.example>;tag=t1|Call-ID: call1|CSeq: 1 BYE|Content-Length: 0|
at 90000 to 1|BYE sip:bob1@127.0.0.1:5071 SIP/2.0|Via: SIP/2.0/UDP 127.0.0.1:5060;branch=z9hG4bK0123456789abcdef-11|Max-Forwards: 70
|From: "Alice" <sip:alice@home.example>;tag=0123456789abcdef-3|To: <sip:bob@home.example>;tag=b1|Call-ID: 0123456789abcdef-2|CSeq: 2 BYE|Content-Length: 0|
at 90000 to 2|ACK sip:vm@127.0.0.1:5072 SIP/2.0|Via: SIP/2.0/UDP 127.0.0.1:5060;branch=z9hG4bK0123456789abcdef-12|Max-Forwards: 70
|From: "Erin" <sip:erin@other.example>;tag=0123456789abcdef-8|To: <sip:vm@far.example>;tag=v1|Call-ID: 0123456789abcdef-7|CSeq: 1 ACK|Content-Length: 0|
at 90000 to 2|BYE sip:vm@127.0.0.1:5072 SIP/2.0|Via: SIP/2.0/UDP 127.0.0.1:5060;branch=z9hG4bK0123456789abcdef-13|Max-Forwards: 70
|From: "Erin" <sip:erin@other.example>;tag=0123456789abcdef-8|To: <sip:vm@far.example>;tag=v1|Call-ID: 0123456789abcdef-7|CSeq: 2 BYE|Content-Length: 0|
at 90000 to 1|BYE sip:erin@127.0.0.1:5071 SIP/2.0|Via: SIP/2.0/UDP 127.0.0.1:5060;branch=z9hG4bK0123456789abcdef-14|Max-Forwards: 70
|From: <sip:vm@far.example>;tag=0123456789abcdef-6|To: "Erin" <sip:erin@other.example>;tag=e1|Call-ID: call2|CSeq: 1 BYE|Content-Length: 0|
~ An answer gives the greatest interval there is, some 68 years.
=further:extension timer;
at 0 peer 1|INVITE sip:bob@home.example SIP/2.0|Via: SIP/2.0/UDP 127.0.0.1:5071;branch=z9hG4bKc1|Max-Forwards: 68|From: "Alice" <sip:alice@home.example>;tag=t1
|To: <sip:bob@home.example>|Call-ID: call1|CSeq: 7 INVITE|Contact: <sip:alice@127.0.0.1:5071>|P-Asserted-Identity: <sip:alice@home.example>|Content-Length: 0|
at 200 peer 1|SIP/2.0 200 OK|Via: SIP/2.0/UDP 127.0.0.1:5060;branch=z9hG4bK0123456789abcdef-4|From: "Alice" <sip:alice@home.example>;tag=0123456789abcdef-3
|To: <sip:bob@home.example>;tag=b1|Call-ID: 0123456789abcdef-2|CSeq: 1 INVITE|Contact: <sip:bob1@127.0.0.1:5071>|Session-Expires: 2147483647|Content-Length: 0|
at 300 peer 1|ACK sip:127.0.0.1:5060 SIP/2.0|Via: SIP/2.0/UDP 127.0.0.1:5071;branch=z9hG4bKk1|Max-Forwards: 68|From: "Alice" <sip:alice@home.example>;tag=t1
|To: <sip:bob@home.example>;tag=0123456789abcdef-1|Call-ID: call1|CSeq: 7 ACK|Content-Length: 0|
at 2147483647199 quiet
at 2147483647200 quiet
~ The session expires at their end.
at 0 to 1|SIP/2.0 100 Trying|Via: SIP/2.0/UDP 127.0.0.1:5071;branch=z9hG4bKc1|From: "Alice" <sip:alice@home.example>;tag=t1|To: <sip:bob@home.example>|Call-ID: call1
|CSeq: 7 INVITE|Content-Length: 0|
at 0 to 1|INVITE sip:bob@home.example SIP/2.0|Via: SIP/2.0/UDP 127.0.0.1:5060;branch=z9hG4bK0123456789abcdef-4|Max-Forwards: 67
|From: "Alice" <sip:alice@home.example>;tag=0123456789abcdef-3|To: <sip:bob@home.example>|Call-ID: 0123456789abcdef-2|CSeq: 1 INVITE|Contact: <sip:127.0.0.1:5060>
|P-Asserted-Identity: <sip:alice@home.example>|Content-Length: 0|
at 200 to 1|SIP/2.0 200 OK|Via: SIP/2.0/UDP 127.0.0.1:5071;branch=z9hG4bKc1|From: "Alice" <sip:alice@home.example>;tag=t1
|To: <sip:bob@home.example>;tag=0123456789abcdef-1|Call-ID: call1|CSeq: 7 INVITE|Contact: <sip:127.0.0.1:5060>|Session-Expires: 2147483647|Content-Length: 0|
at 300 to 1|ACK sip:bob1@127.0.0.1:5071 SIP/2.0|Via: SIP/2.0/UDP 127.0.0.1:5060;branch=z9hG4bK0123456789abcdef-5|Max-Forwards: 67
|From: "Alice" <sip:alice@home.example>;tag=0123456789abcdef-3|To: <sip:bob@home.example>;tag=b1|Call-ID: 0123456789abcdef-2|CSeq: 1 ACK|Content-Length: 0|
at 2147483647200 to 1|BYE sip:alice@127.0.0.1:5071 SIP/2.0|Via: SIP/2.0/UDP 127.0.0.1:5060;branch=z9hG4bK0123456789abcdef-6|Max-Forwards: 70
|From: <sip:bob@home.example>;tag=0123456789abcdef-1|To: "Alice" <sip:alice@home.example>;tag=t1|Call-ID: call1|CSeq: 1 BYE|Content-Length: 0|
at 2147483647200 to 1|BYE sip:bob1@127.0.0.1:5071 SIP/2.0|Via: SIP/2.0/UDP 127.0.0.1:5060;branch=z9hG4bK0123456789abcdef-7|Max-Forwards: 70
|From: "Alice" <sip:alice@home.example>;tag=0123456789abcdef-3|To: <sip:bob@home.example>;tag=b1|Call-ID: 0123456789abcdef-2|CSeq: 2 BYE|Content-Length: 0|
"#;

#[test]
fn sessions(rt: HostRuntime) {
    assert_right(&rt, "SESSIONS", wrong_run(rt.alloc(), SESSIONS));
}
