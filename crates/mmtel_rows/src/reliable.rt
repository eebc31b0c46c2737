//! Reliable provisional responses (RFC 3262) and UPDATE (RFC 3311).
//!
//! Each is a script and its expected listing, in the form of `cases`.

use crate::asserting::assert_right;
use crate::cases::wrong_run;

/// Reliable provisional responses, and their PRACKs.
const RELIABLE: &[u8] =
    br#"~ A reliable 183, its PRACK after 600 ms, and another PRACK of the same answer.
=further:extension 100rel;
at 0 peer 1|INVITE sip:bob@far.example SIP/2.0|Via: SIP/2.0/UDP 127.0.0.1:5071;branch=z9hG4bKa1|Max-Forwards: 68|From: "Erin" <sip:erin@other.example>;tag=a
|To: <sip:bob@far.example>|Call-ID: c1|CSeq: 7 INVITE|Contact: <sip:erin@127.0.0.1:5071>|P-Asserted-Identity: <sip:erin@other.example>|Privacy: id|Supported: 100rel
|Content-Length: 0|
at 100 peer 2|SIP/2.0 183 Session Progress|Via: SIP/2.0/UDP 127.0.0.1:5060;branch=z9hG4bK0123456789abcdef-4
|From: "Anonymous" <sip:anonymous@anonymous.invalid>;tag=0123456789abcdef-3|To: <sip:bob@far.example>;tag=bt|Call-ID: 0123456789abcdef-2|CSeq: 1 INVITE
|Contact: <sip:bob@127.0.0.1:5072>|Require: 100rel|RSeq: 900|Content-Length: 0|
at 700 peer 1|PRACK sip:127.0.0.1:5060 SIP/2.0|Via: SIP/2.0/UDP 127.0.0.1:5071;branch=z9hG4bKp1|Max-Forwards: 68|From: "Erin" <sip:erin@other.example>;tag=a
|To: <sip:bob@far.example>;tag=0123456789abcdef-1|Call-ID: c1|CSeq: 8 PRACK|RAck: 1 7 INVITE|Content-Length: 0|
at 800 peer 1|PRACK sip:127.0.0.1:5060 SIP/2.0|Via: SIP/2.0/UDP 127.0.0.1:5071;branch=z9hG4bKp2|Max-Forwards: 68|From: "Erin" <sip:erin@other.example>;tag=a
|To: <sip:bob@far.example>;tag=0123456789abcdef-1|Call-ID: c1|CSeq: 9 PRACK|RAck: 1 7 INVITE|Content-Length: 0|
at 900 quiet
~ The 183 has a number of the server's own and is sent again until its PRACK, which goes on with the target's number; the other one is refused.
at 0 to 1|SIP/2.0 100 Trying|Via: SIP/2.0/UDP 127.0.0.1:5071;branch=z9hG4bKa1|From: "Erin" <sip:erin@other.example>;tag=a|To: <sip:bob@far.example>|Call-ID: c1|CSeq: 7 INVITE
|Content-Length: 0|
at 0 to 2|INVITE sip:bob@far.example SIP/2.0|Via: SIP/2.0/UDP 127.0.0.1:5060;branch=z9hG4bK0123456789abcdef-4|Max-Forwards: 67
|From: "Anonymous" <sip:anonymous@anonymous.invalid>;tag=0123456789abcdef-3|To: <sip:bob@far.example>|Call-ID: 0123456789abcdef-2|CSeq: 1 INVITE|Contact: <sip:127.0.0.1:5060>
|Supported: 100rel|Content-Length: 0|
at 100 to 1|SIP/2.0 183 Session Progress|Via: SIP/2.0/UDP 127.0.0.1:5071;branch=z9hG4bKa1|From: "Erin" <sip:erin@other.example>;tag=a
|To: <sip:bob@far.example>;tag=0123456789abcdef-1|Call-ID: c1|CSeq: 7 INVITE|Contact: <sip:127.0.0.1:5060>|Require: 100rel|RSeq: 1|Content-Length: 0|
at 600 to 1|SIP/2.0 183 Session Progress|Via: SIP/2.0/UDP 127.0.0.1:5071;branch=z9hG4bKa1|From: "Erin" <sip:erin@other.example>;tag=a
|To: <sip:bob@far.example>;tag=0123456789abcdef-1|Call-ID: c1|CSeq: 7 INVITE|Contact: <sip:127.0.0.1:5060>|Require: 100rel|RSeq: 1|Content-Length: 0|
at 700 to 2|PRACK sip:bob@127.0.0.1:5072 SIP/2.0|Via: SIP/2.0/UDP 127.0.0.1:5060;branch=z9hG4bK0123456789abcdef-5|Max-Forwards: 67
|From: "Anonymous" <sip:anonymous@anonymous.invalid>;tag=0123456789abcdef-3|To: <sip:bob@far.example>;tag=bt|Call-ID: 0123456789abcdef-2|CSeq: 2 PRACK|RAck: 900 1 INVITE
|Content-Length: 0|
at 800 to 1|SIP/2.0 481 Call/Transaction Does Not Exist|Via: SIP/2.0/UDP 127.0.0.1:5071;branch=z9hG4bKp2|From: "Erin" <sip:erin@other.example>;tag=a
|To: <sip:bob@far.example>;tag=0123456789abcdef-1|Call-ID: c1|CSeq: 9 PRACK|Content-Length: 0|
~ A reliable 183 that nobody acknowledges, for 40 seconds.
=further:extension 100rel;
at 0 peer 1|INVITE sip:bob@far.example SIP/2.0|Via: SIP/2.0/UDP 127.0.0.1:5071;branch=z9hG4bKa1|Max-Forwards: 68|From: "Erin" <sip:erin@other.example>;tag=a
|To: <sip:bob@far.example>|Call-ID: c1|CSeq: 7 INVITE|Contact: <sip:erin@127.0.0.1:5071>|P-Asserted-Identity: <sip:erin@other.example>|Privacy: id|Supported: 100rel
|Content-Length: 0|
at 100 peer 2|SIP/2.0 183 Session Progress|Via: SIP/2.0/UDP 127.0.0.1:5060;branch=z9hG4bK0123456789abcdef-4
|From: "Anonymous" <sip:anonymous@anonymous.invalid>;tag=0123456789abcdef-3|To: <sip:bob@far.example>;tag=bt|Call-ID: 0123456789abcdef-2|CSeq: 1 INVITE
|Contact: <sip:bob@127.0.0.1:5072>|Require: 100rel|RSeq: 900|Content-Length: 0|
at 40000 quiet
~ It is sent again at the moments of an INVITE; after 32,000 ms the call ends by a 500, and the target has a CANCEL (RFC 3262 section 3).
at 0 to 1|SIP/2.0 100 Trying|Via: SIP/2.0/UDP 127.0.0.1:5071;branch=z9hG4bKa1|From: "Erin" <sip:erin@other.example>;tag=a|To: <sip:bob@far.example>|Call-ID: c1|CSeq: 7 INVITE
|Content-Length: 0|
at 0 to 2|INVITE sip:bob@far.example SIP/2.0|Via: SIP/2.0/UDP 127.0.0.1:5060;branch=z9hG4bK0123456789abcdef-4|Max-Forwards: 67
|From: "Anonymous" <sip:anonymous@anonymous.invalid>;tag=0123456789abcdef-3|To: <sip:bob@far.example>|Call-ID: 0123456789abcdef-2|CSeq: 1 INVITE|Contact: <sip:127.0.0.1:5060>
|Supported: 100rel|Content-Length: 0|
at 100 to 1|SIP/2.0 183 Session Progress|Via: SIP/2.0/UDP 127.0.0.1:5071;branch=z9hG4bKa1|From: "Erin" <sip:erin@other.example>;tag=a
|To: <sip:bob@far.example>;tag=0123456789abcdef-1|Call-ID: c1|CSeq: 7 INVITE|Contact: <sip:127.0.0.1:5060>|Require: 100rel|RSeq: 1|Content-Length: 0|
at 600 to 1|SIP/2.0 183 Session Progress|Via: SIP/2.0/UDP 127.0.0.1:5071;branch=z9hG4bKa1|From: "Erin" <sip:erin@other.example>;tag=a
|To: <sip:bob@far.example>;tag=0123456789abcdef-1|Call-ID: c1|CSeq: 7 INVITE|Contact: <sip:127.0.0.1:5060>|Require: 100rel|RSeq: 1|Content-Length: 0|
at 1600 to 1|SIP/2.0 183 Session Progress|Via: SIP/2.0/UDP 127.0.0.1:5071;branch=z9hG4bKa1|From: "Erin" <sip:erin@other.example>;tag=a
|To: <sip:bob@far.example>;tag=0123456789abcdef-1|Call-ID: c1|CSeq: 7 INVITE|Contact: <sip:127.0.0.1:5060>|Require: 100rel|RSeq: 1|Content-Length: 0|
at 3600 to 1|SIP/2.0 183 Session Progress|Via: SIP/2.0/UDP 127.0.0.1:5071;branch=z9hG4bKa1|From: "Erin" <sip:erin@other.example>;tag=a
|To: <sip:bob@far.example>;tag=0123456789abcdef-1|Call-ID: c1|CSeq: 7 INVITE|Contact: <sip:127.0.0.1:5060>|Require: 100rel|RSeq: 1|Content-Length: 0|
at 7600 to 1|SIP/2.0 183 Session Progress|Via: SIP/2.0/UDP 127.0.0.1:5071;branch=z9hG4bKa1|From: "Erin" <sip:erin@other.example>;tag=a
|To: <sip:bob@far.example>;tag=0123456789abcdef-1|Call-ID: c1|CSeq: 7 INVITE|Contact: <sip:127.0.0.1:5060>|Require: 100rel|RSeq: 1|Content-Length: 0|
at 15600 to 1|SIP/2.0 183 Session Progress|Via: SIP/2.0/UDP 127.0.0.1:5071;branch=z9hG4bKa1|From: "Erin" <sip:erin@other.example>;tag=a
|To: <sip:bob@far.example>;tag=0123456789abcdef-1|Call-ID: c1|CSeq: 7 INVITE|Contact: <sip:127.0.0.1:5060>|Require: 100rel|RSeq: 1|Content-Length: 0|
at 31600 to 1|SIP/2.0 183 Session Progress|Via: SIP/2.0/UDP 127.0.0.1:5071;branch=z9hG4bKa1|From: "Erin" <sip:erin@other.example>;tag=a
|To: <sip:bob@far.example>;tag=0123456789abcdef-1|Call-ID: c1|CSeq: 7 INVITE|Contact: <sip:127.0.0.1:5060>|Require: 100rel|RSeq: 1|Content-Length: 0|
at 32100 to 1|SIP/2.0 500 Server Internal Error|Via: SIP/2.0/UDP 127.0.0.1:5071;branch=z9hG4bKa1|From: "Erin" <sip:erin@other.example>;tag=a
|To: <sip:bob@far.example>;tag=0123456789abcdef-1|Call-ID: c1|CSeq: 7 INVITE|Content-Length: 0|
at 32100 to 2|CANCEL sip:bob@far.example SIP/2.0|Via: SIP/2.0/UDP 127.0.0.1:5060;branch=z9hG4bK0123456789abcdef-4|Max-Forwards: 70
|From: "Anonymous" <sip:anonymous@anonymous.invalid>;tag=0123456789abcdef-3|To: <sip:bob@far.example>|Call-ID: 0123456789abcdef-2|CSeq: 1 CANCEL|Content-Length: 0|
at 32600 to 1|SIP/2.0 500 Server Internal Error|Via: SIP/2.0/UDP 127.0.0.1:5071;branch=z9hG4bKa1|From: "Erin" <sip:erin@other.example>;tag=a
|To: <sip:bob@far.example>;tag=0123456789abcdef-1|Call-ID: c1|CSeq: 7 INVITE|Content-Length: 0|
at 32600 to 2|CANCEL sip:bob@far.example SIP/2.0|Via: SIP/2.0/UDP 127.0.0.1:5060;branch=z9hG4bK0123456789abcdef-4|Max-Forwards: 70
|From: "Anonymous" <sip:anonymous@anonymous.invalid>;tag=0123456789abcdef-3|To: <sip:bob@far.example>|Call-ID: 0123456789abcdef-2|CSeq: 1 CANCEL|Content-Length: 0|
at 33600 to 1|SIP/2.0 500 Server Internal Error|Via: SIP/2.0/UDP 127.0.0.1:5071;branch=z9hG4bKa1|From: "Erin" <sip:erin@other.example>;tag=a
|To: <sip:bob@far.example>;tag=0123456789abcdef-1|Call-ID: c1|CSeq: 7 INVITE|Content-Length: 0|
at 33600 to 2|CANCEL sip:bob@far.example SIP/2.0|Via: SIP/2.0/UDP 127.0.0.1:5060;branch=z9hG4bK0123456789abcdef-4|Max-Forwards: 70
|From: "Anonymous" <sip:anonymous@anonymous.invalid>;tag=0123456789abcdef-3|To: <sip:bob@far.example>|Call-ID: 0123456789abcdef-2|CSeq: 1 CANCEL|Content-Length: 0|
at 35600 to 1|SIP/2.0 500 Server Internal Error|Via: SIP/2.0/UDP 127.0.0.1:5071;branch=z9hG4bKa1|From: "Erin" <sip:erin@other.example>;tag=a
|To: <sip:bob@far.example>;tag=0123456789abcdef-1|Call-ID: c1|CSeq: 7 INVITE|Content-Length: 0|
at 35600 to 2|CANCEL sip:bob@far.example SIP/2.0|Via: SIP/2.0/UDP 127.0.0.1:5060;branch=z9hG4bK0123456789abcdef-4|Max-Forwards: 70
|From: "Anonymous" <sip:anonymous@anonymous.invalid>;tag=0123456789abcdef-3|To: <sip:bob@far.example>|Call-ID: 0123456789abcdef-2|CSeq: 1 CANCEL|Content-Length: 0|
at 39600 to 1|SIP/2.0 500 Server Internal Error|Via: SIP/2.0/UDP 127.0.0.1:5071;branch=z9hG4bKa1|From: "Erin" <sip:erin@other.example>;tag=a
|To: <sip:bob@far.example>;tag=0123456789abcdef-1|Call-ID: c1|CSeq: 7 INVITE|Content-Length: 0|
at 39600 to 2|CANCEL sip:bob@far.example SIP/2.0|Via: SIP/2.0/UDP 127.0.0.1:5060;branch=z9hG4bK0123456789abcdef-4|Max-Forwards: 70
|From: "Anonymous" <sip:anonymous@anonymous.invalid>;tag=0123456789abcdef-3|To: <sip:bob@far.example>|Call-ID: 0123456789abcdef-2|CSeq: 1 CANCEL|Content-Length: 0|
~ A reliable 183 that is acknowledged, and nothing after it.
=further:extension 100rel;
at 0 peer 1|INVITE sip:bob@home.example SIP/2.0|Via: SIP/2.0/UDP 127.0.0.1:5071;branch=z9hG4bKc1|Max-Forwards: 68|From: "Alice" <sip:alice@home.example>;tag=t1
|To: <sip:bob@home.example>|Call-ID: call1|CSeq: 7 INVITE|Contact: <sip:alice@127.0.0.1:5071>|P-Asserted-Identity: <sip:alice@home.example>|Supported: 100rel|Content-Length: 0
|
at 100 peer 1|SIP/2.0 183 Progress|Via: SIP/2.0/UDP 127.0.0.1:5060;branch=z9hG4bK0123456789abcdef-4|From: "Alice" <sip:alice@home.example>;tag=0123456789abcdef-3
|To: <sip:bob@home.example>;tag=b1|Call-ID: 0123456789abcdef-2|CSeq: 1 INVITE|Contact: <sip:bob1@127.0.0.1:5071>|Require: 100rel|RSeq: 900|Content-Length: 0|
at 200 peer 1|PRACK sip:127.0.0.1:5060 SIP/2.0|Via: SIP/2.0/UDP 127.0.0.1:5071;branch=z9hG4bKp1|Max-Forwards: 68|From: "Alice" <sip:alice@home.example>;tag=t1
|To: <sip:bob@home.example>;tag=0123456789abcdef-1|Call-ID: call1|CSeq: 8 PRACK|RAck: 1 7 INVITE|Content-Length: 0|
at 210 peer 1|SIP/2.0 200 OK|Via: SIP/2.0/UDP 127.0.0.1:5060;branch=z9hG4bK0123456789abcdef-5|From: "Alice" <sip:alice@home.example>;tag=0123456789abcdef-3
|To: <sip:bob@home.example>;tag=b1|Call-ID: 0123456789abcdef-2|CSeq: 2 PRACK|Content-Length: 0|
at 40000 quiet
at 40100 peer 1|SIP/2.0 486 Busy|Via: SIP/2.0/UDP 127.0.0.1:5060;branch=z9hG4bK0123456789abcdef-4|From: "Alice" <sip:alice@home.example>;tag=0123456789abcdef-3
|To: <sip:bob@home.example>;tag=b1|Call-ID: 0123456789abcdef-2|CSeq: 1 INVITE|Content-Length: 0|
~ Nothing ends the call 32,000 ms later.
at 0 to 1|SIP/2.0 100 Trying|Via: SIP/2.0/UDP 127.0.0.1:5071;branch=z9hG4bKc1|From: "Alice" <sip:alice@home.example>;tag=t1|To: <sip:bob@home.example>|Call-ID: call1
|CSeq: 7 INVITE|Content-Length: 0|
at 0 to 1|INVITE sip:bob@home.example SIP/2.0|Via: SIP/2.0/UDP 127.0.0.1:5060;branch=z9hG4bK0123456789abcdef-4|Max-Forwards: 67
|From: "Alice" <sip:alice@home.example>;tag=0123456789abcdef-3|To: <sip:bob@home.example>|Call-ID: 0123456789abcdef-2|CSeq: 1 INVITE|Contact: <sip:127.0.0.1:5060>
|P-Asserted-Identity: <sip:alice@home.example>|Supported: 100rel|Content-Length: 0|
at 100 to 1|SIP/2.0 183 Progress|Via: SIP/2.0/UDP 127.0.0.1:5071;branch=z9hG4bKc1|From: "Alice" <sip:alice@home.example>;tag=t1
|To: <sip:bob@home.example>;tag=0123456789abcdef-1|Call-ID: call1|CSeq: 7 INVITE|Contact: <sip:127.0.0.1:5060>|Require: 100rel|RSeq: 1|Content-Length: 0|
at 200 to 1|PRACK sip:bob1@127.0.0.1:5071 SIP/2.0|Via: SIP/2.0/UDP 127.0.0.1:5060;branch=z9hG4bK0123456789abcdef-5|Max-Forwards: 67
|From: "Alice" <sip:alice@home.example>;tag=0123456789abcdef-3|To: <sip:bob@home.example>;tag=b1|Call-ID: 0123456789abcdef-2|CSeq: 2 PRACK|RAck: 900 1 INVITE|Content-Length: 0
|
at 210 to 1|SIP/2.0 200 OK|Via: SIP/2.0/UDP 127.0.0.1:5071;branch=z9hG4bKp1|From: "Alice" <sip:alice@home.example>;tag=t1|To: <sip:bob@home.example>;tag=0123456789abcdef-1
|Call-ID: call1|CSeq: 8 PRACK|Content-Length: 0|
at 40100 to 1|ACK sip:bob@home.example SIP/2.0|Via: SIP/2.0/UDP 127.0.0.1:5060;branch=z9hG4bK0123456789abcdef-4|Max-Forwards: 70
|From: "Alice" <sip:alice@home.example>;tag=0123456789abcdef-3|To: <sip:bob@home.example>;tag=b1|Call-ID: 0123456789abcdef-2|CSeq: 1 ACK|Content-Length: 0|
at 40100 to 1|SIP/2.0 486 Busy|Via: SIP/2.0/UDP 127.0.0.1:5071;branch=z9hG4bKc1|From: "Alice" <sip:alice@home.example>;tag=t1|To: <sip:bob@home.example>;tag=0123456789abcdef-1
|Call-ID: call1|CSeq: 7 INVITE|Content-Length: 0|
~ The caller requires reliable answers.
=further:extension 100rel;
at 0 peer 1|INVITE sip:bob@home.example SIP/2.0|Via: SIP/2.0/UDP 127.0.0.1:5071;branch=z9hG4bKc1|Max-Forwards: 68|From: "Alice" <sip:alice@home.example>;tag=t1
|To: <sip:bob@home.example>|Call-ID: call1|CSeq: 7 INVITE|Contact: <sip:alice@127.0.0.1:5071>|P-Asserted-Identity: <sip:alice@home.example>|Require: 100rel|Content-Length: 0|
at 100 peer 1|SIP/2.0 180 Ringing|Via: SIP/2.0/UDP 127.0.0.1:5060;branch=z9hG4bK0123456789abcdef-4|From: "Alice" <sip:alice@home.example>;tag=0123456789abcdef-3
|To: <sip:bob@home.example>;tag=b1|Call-ID: 0123456789abcdef-2|CSeq: 1 INVITE|Contact: <sip:bob1@127.0.0.1:5071>|Require: 100rel|RSeq: 1|Content-Length: 0|
at 110 peer 1|PRACK sip:127.0.0.1:5060 SIP/2.0|Via: SIP/2.0/UDP 127.0.0.1:5071;branch=z9hG4bKp1|Max-Forwards: 68|From: "Alice" <sip:alice@home.example>;tag=t1
|To: <sip:bob@home.example>;tag=0123456789abcdef-1|Call-ID: call1|CSeq: 8 PRACK|RAck: 1 7 INVITE|Content-Length: 0|
at 120 peer 1|SIP/2.0 200 OK|Via: SIP/2.0/UDP 127.0.0.1:5060;branch=z9hG4bK0123456789abcdef-5|From: "Alice" <sip:alice@home.example>;tag=0123456789abcdef-3
|To: <sip:bob@home.example>;tag=b1|Call-ID: 0123456789abcdef-2|CSeq: 2 PRACK|Content-Length: 0|
at 400 quiet
~ So does the INVITE that goes to the target.
at 0 to 1|SIP/2.0 100 Trying|Via: SIP/2.0/UDP 127.0.0.1:5071;branch=z9hG4bKc1|From: "Alice" <sip:alice@home.example>;tag=t1|To: <sip:bob@home.example>|Call-ID: call1
|CSeq: 7 INVITE|Content-Length: 0|
at 0 to 1|INVITE sip:bob@home.example SIP/2.0|Via: SIP/2.0/UDP 127.0.0.1:5060;branch=z9hG4bK0123456789abcdef-4|Max-Forwards: 67
|From: "Alice" <sip:alice@home.example>;tag=0123456789abcdef-3|To: <sip:bob@home.example>|Call-ID: 0123456789abcdef-2|CSeq: 1 INVITE|Contact: <sip:127.0.0.1:5060>
|P-Asserted-Identity: <sip:alice@home.example>|Require: 100rel|Content-Length: 0|
at 100 to 1|SIP/2.0 180 Ringing|Via: SIP/2.0/UDP 127.0.0.1:5071;branch=z9hG4bKc1|From: "Alice" <sip:alice@home.example>;tag=t1
|To: <sip:bob@home.example>;tag=0123456789abcdef-1|Call-ID: call1|CSeq: 7 INVITE|Contact: <sip:127.0.0.1:5060>|Require: 100rel|RSeq: 1|Content-Length: 0|
at 110 to 1|PRACK sip:bob1@127.0.0.1:5071 SIP/2.0|Via: SIP/2.0/UDP 127.0.0.1:5060;branch=z9hG4bK0123456789abcdef-5|Max-Forwards: 67
|From: "Alice" <sip:alice@home.example>;tag=0123456789abcdef-3|To: <sip:bob@home.example>;tag=b1|Call-ID: 0123456789abcdef-2|CSeq: 2 PRACK|RAck: 1 1 INVITE|Content-Length: 0|
at 120 to 1|SIP/2.0 200 OK|Via: SIP/2.0/UDP 127.0.0.1:5071;branch=z9hG4bKp1|From: "Alice" <sip:alice@home.example>;tag=t1|To: <sip:bob@home.example>;tag=0123456789abcdef-1
|Call-ID: call1|CSeq: 8 PRACK|Content-Length: 0|
~ An answer that names no dialog, though it requires a PRACK.
=further:extension 100rel;
at 0 peer 1|INVITE sip:bob@home.example SIP/2.0|Via: SIP/2.0/UDP 127.0.0.1:5071;branch=z9hG4bKc1|Max-Forwards: 68|From: "Alice" <sip:alice@home.example>;tag=t1
|To: <sip:bob@home.example>|Call-ID: call1|CSeq: 7 INVITE|Contact: <sip:alice@127.0.0.1:5071>|P-Asserted-Identity: <sip:alice@home.example>|Supported: 100rel|Content-Length: 0
|
at 100 peer 1|SIP/2.0 180 Ringing|Via: SIP/2.0/UDP 127.0.0.1:5060;branch=z9hG4bK0123456789abcdef-4|From: "Alice" <sip:alice@home.example>;tag=0123456789abcdef-3
|To: <sip:bob@home.example>|Call-ID: 0123456789abcdef-2|CSeq: 1 INVITE|Contact: <sip:bob1@127.0.0.1:5071>|Require: 100rel|RSeq: 5|Content-Length: 0|
at 200 peer 1|PRACK sip:127.0.0.1:5060 SIP/2.0|Via: SIP/2.0/UDP 127.0.0.1:5071;branch=z9hG4bKp1|Max-Forwards: 68|From: "Alice" <sip:alice@home.example>;tag=t1
|To: <sip:bob@home.example>;tag=0123456789abcdef-1|Call-ID: call1|CSeq: 8 PRACK|RAck: 1 7 INVITE|Content-Length: 0|
~ It is relayed without a number, and a PRACK is refused (RFC 3262 section 4).
at 0 to 1|SIP/2.0 100 Trying|Via: SIP/2.0/UDP 127.0.0.1:5071;branch=z9hG4bKc1|From: "Alice" <sip:alice@home.example>;tag=t1|To: <sip:bob@home.example>|Call-ID: call1
|CSeq: 7 INVITE|Content-Length: 0|
at 0 to 1|INVITE sip:bob@home.example SIP/2.0|Via: SIP/2.0/UDP 127.0.0.1:5060;branch=z9hG4bK0123456789abcdef-4|Max-Forwards: 67
|From: "Alice" <sip:alice@home.example>;tag=0123456789abcdef-3|To: <sip:bob@home.example>|Call-ID: 0123456789abcdef-2|CSeq: 1 INVITE|Contact: <sip:127.0.0.1:5060>
|P-Asserted-Identity: <sip:alice@home.example>|Supported: 100rel|Content-Length: 0|
at 100 to 1|SIP/2.0 180 Ringing|Via: SIP/2.0/UDP 127.0.0.1:5071;branch=z9hG4bKc1|From: "Alice" <sip:alice@home.example>;tag=t1
|To: <sip:bob@home.example>;tag=0123456789abcdef-1|Call-ID: call1|CSeq: 7 INVITE|Contact: <sip:127.0.0.1:5060>|Content-Length: 0|
at 200 to 1|SIP/2.0 481 Call/Transaction Does Not Exist|Via: SIP/2.0/UDP 127.0.0.1:5071;branch=z9hG4bKp1|From: "Alice" <sip:alice@home.example>;tag=t1
|To: <sip:bob@home.example>;tag=0123456789abcdef-1|Call-ID: call1|CSeq: 8 PRACK|Content-Length: 0|
~ Numbers that are none: 0, 2^31, and two lines of which the first is none.
=further:extension 100rel;
at 0 peer 1|INVITE sip:bob@home.example SIP/2.0|Via: SIP/2.0/UDP 127.0.0.1:5071;branch=z9hG4bKc1|Max-Forwards: 68|From: "Alice" <sip:alice@home.example>;tag=t1
|To: <sip:bob@home.example>|Call-ID: call1|CSeq: 7 INVITE|Contact: <sip:alice@127.0.0.1:5071>|P-Asserted-Identity: <sip:alice@home.example>|Supported: 100rel|Content-Length: 0
|
at 100 peer 1|SIP/2.0 183 Progress|Via: SIP/2.0/UDP 127.0.0.1:5060;branch=z9hG4bK0123456789abcdef-4|From: "Alice" <sip:alice@home.example>;tag=0123456789abcdef-3
|To: <sip:bob@home.example>;tag=b1|Call-ID: 0123456789abcdef-2|CSeq: 1 INVITE|Contact: <sip:bob1@127.0.0.1:5071>|Require: 100rel|RSeq: 0|Content-Length: 0|
at 110 peer 1|SIP/2.0 183 Progress|Via: SIP/2.0/UDP 127.0.0.1:5060;branch=z9hG4bK0123456789abcdef-4|From: "Alice" <sip:alice@home.example>;tag=0123456789abcdef-3
|To: <sip:bob@home.example>;tag=b1|Call-ID: 0123456789abcdef-2|CSeq: 1 INVITE|Contact: <sip:bob1@127.0.0.1:5071>|Require: 100rel|RSeq: 2147483648|Content-Length: 0|
at 120 peer 1|SIP/2.0 183 Progress|Via: SIP/2.0/UDP 127.0.0.1:5060;branch=z9hG4bK0123456789abcdef-4|From: "Alice" <sip:alice@home.example>;tag=0123456789abcdef-3
|To: <sip:bob@home.example>;tag=b1|Call-ID: 0123456789abcdef-2|CSeq: 1 INVITE|Contact: <sip:bob1@127.0.0.1:5071>|Require: 100rel|RSeq: 2147483647|Content-Length: 0|
at 130 peer 1|SIP/2.0 183 Progress|Via: SIP/2.0/UDP 127.0.0.1:5060;branch=z9hG4bK0123456789abcdef-4|From: "Alice" <sip:alice@home.example>;tag=0123456789abcdef-3
|To: <sip:bob@home.example>;tag=b1|Call-ID: 0123456789abcdef-2|CSeq: 1 INVITE|Contact: <sip:bob1@127.0.0.1:5071>|Require: 100rel|RSeq: 2147483648|RSeq: 5|Content-Length: 0|
at 200 peer 1|PRACK sip:127.0.0.1:5060 SIP/2.0|Via: SIP/2.0/UDP 127.0.0.1:5071;branch=z9hG4bKp1|Max-Forwards: 68|From: "Alice" <sip:alice@home.example>;tag=t1
|To: <sip:bob@home.example>;tag=0123456789abcdef-1|Call-ID: call1|CSeq: 8 PRACK|RAck: 2 7 INVITE|Content-Length: 0|
at 210 peer 1|PRACK sip:127.0.0.1:5060 SIP/2.0|Via: SIP/2.0/UDP 127.0.0.1:5071;branch=z9hG4bKp2|Max-Forwards: 68|From: "Alice" <sip:alice@home.example>;tag=t1
|To: <sip:bob@home.example>;tag=0123456789abcdef-1|Call-ID: call1|CSeq: 9 PRACK|RAck: 1 7 INVITE|Content-Length: 0|
at 220 peer 1|SIP/2.0 200 OK|Via: SIP/2.0/UDP 127.0.0.1:5060;branch=z9hG4bK0123456789abcdef-5|From: "Alice" <sip:alice@home.example>;tag=0123456789abcdef-3
|To: <sip:bob@home.example>;tag=b1|Call-ID: 0123456789abcdef-2|CSeq: 2 PRACK|Content-Length: 0|
at 300 quiet
~ These are relayed without a number.
at 0 to 1|SIP/2.0 100 Trying|Via: SIP/2.0/UDP 127.0.0.1:5071;branch=z9hG4bKc1|From: "Alice" <sip:alice@home.example>;tag=t1|To: <sip:bob@home.example>|Call-ID: call1
|CSeq: 7 INVITE|Content-Length: 0|
at 0 to 1|INVITE sip:bob@home.example SIP/2.0|Via: SIP/2.0/UDP 127.0.0.1:5060;branch=z9hG4bK0123456789abcdef-4|Max-Forwards: 67
|From: "Alice" <sip:alice@home.example>;tag=0123456789abcdef-3|To: <sip:bob@home.example>|Call-ID: 0123456789abcdef-2|CSeq: 1 INVITE|Contact: <sip:127.0.0.1:5060>
|P-Asserted-Identity: <sip:alice@home.example>|Supported: 100rel|Content-Length: 0|
at 100 to 1|SIP/2.0 183 Progress|Via: SIP/2.0/UDP 127.0.0.1:5071;branch=z9hG4bKc1|From: "Alice" <sip:alice@home.example>;tag=t1
|To: <sip:bob@home.example>;tag=0123456789abcdef-1|Call-ID: call1|CSeq: 7 INVITE|Contact: <sip:127.0.0.1:5060>|Content-Length: 0|
at 110 to 1|SIP/2.0 183 Progress|Via: SIP/2.0/UDP 127.0.0.1:5071;branch=z9hG4bKc1|From: "Alice" <sip:alice@home.example>;tag=t1
|To: <sip:bob@home.example>;tag=0123456789abcdef-1|Call-ID: call1|CSeq: 7 INVITE|Contact: <sip:127.0.0.1:5060>|Content-Length: 0|
at 120 to 1|SIP/2.0 183 Progress|Via: SIP/2.0/UDP 127.0.0.1:5071;branch=z9hG4bKc1|From: "Alice" <sip:alice@home.example>;tag=t1
|To: <sip:bob@home.example>;tag=0123456789abcdef-1|Call-ID: call1|CSeq: 7 INVITE|Contact: <sip:127.0.0.1:5060>|Require: 100rel|RSeq: 1|Content-Length: 0|
at 130 to 1|SIP/2.0 183 Progress|Via: SIP/2.0/UDP 127.0.0.1:5071;branch=z9hG4bKc1|From: "Alice" <sip:alice@home.example>;tag=t1
|To: <sip:bob@home.example>;tag=0123456789abcdef-1|Call-ID: call1|CSeq: 7 INVITE|Contact: <sip:127.0.0.1:5060>|Content-Length: 0|
at 200 to 1|SIP/2.0 481 Call/Transaction Does Not Exist|Via: SIP/2.0/UDP 127.0.0.1:5071;branch=z9hG4bKp1|From: "Alice" <sip:alice@home.example>;tag=t1
|To: <sip:bob@home.example>;tag=0123456789abcdef-1|Call-ID: call1|CSeq: 8 PRACK|Content-Length: 0|
at 210 to 1|PRACK sip:bob1@127.0.0.1:5071 SIP/2.0|Via: SIP/2.0/UDP 127.0.0.1:5060;branch=z9hG4bK0123456789abcdef-5|Max-Forwards: 67
|From: "Alice" <sip:alice@home.example>;tag=0123456789abcdef-3|To: <sip:bob@home.example>;tag=b1|Call-ID: 0123456789abcdef-2|CSeq: 2 PRACK|RAck: 2147483647 1 INVITE
|Content-Length: 0|
at 220 to 1|SIP/2.0 200 OK|Via: SIP/2.0/UDP 127.0.0.1:5071;branch=z9hG4bKp2|From: "Alice" <sip:alice@home.example>;tag=t1|To: <sip:bob@home.example>;tag=0123456789abcdef-1
|Call-ID: call1|CSeq: 9 PRACK|Content-Length: 0|
~ A reliable answer of another dialog than the first.
=further:extension 100rel;
at 0 peer 1|INVITE sip:bob@home.example SIP/2.0|Via: SIP/2.0/UDP 127.0.0.1:5071;branch=z9hG4bKc1|Max-Forwards: 68|From: "Alice" <sip:alice@home.example>;tag=t1
|To: <sip:bob@home.example>|Call-ID: call1|CSeq: 7 INVITE|Contact: <sip:alice@127.0.0.1:5071>|P-Asserted-Identity: <sip:alice@home.example>|Supported: 100rel|Content-Length: 0
|
at 100 peer 1|SIP/2.0 183 Progress|Via: SIP/2.0/UDP 127.0.0.1:5060;branch=z9hG4bK0123456789abcdef-4|From: "Alice" <sip:alice@home.example>;tag=0123456789abcdef-3
|To: <sip:bob@home.example>;tag=b1|Call-ID: 0123456789abcdef-2|CSeq: 1 INVITE|Contact: <sip:bob1@127.0.0.1:5071>|Require: 100rel|RSeq: 900|Content-Length: 0|
at 200 peer 1|SIP/2.0 183 Progress|Via: SIP/2.0/UDP 127.0.0.1:5060;branch=z9hG4bK0123456789abcdef-4|From: "Alice" <sip:alice@home.example>;tag=0123456789abcdef-3
|To: <sip:bob@home.example>;tag=b2|Call-ID: 0123456789abcdef-2|CSeq: 1 INVITE|Contact: <sip:bob2@127.0.0.1:5071>|Require: 100rel|RSeq: 901|Content-Length: 0|
at 300 peer 1|PRACK sip:127.0.0.1:5060 SIP/2.0|Via: SIP/2.0/UDP 127.0.0.1:5071;branch=z9hG4bKp1|Max-Forwards: 68|From: "Alice" <sip:alice@home.example>;tag=t1
|To: <sip:bob@home.example>;tag=0123456789abcdef-1|Call-ID: call1|CSeq: 8 PRACK|RAck: 1 7 INVITE|Content-Length: 0|
at 310 peer 1|SIP/2.0 200 OK|Via: SIP/2.0/UDP 127.0.0.1:5060;branch=z9hG4bK0123456789abcdef-5|From: "Alice" <sip:alice@home.example>;tag=0123456789abcdef-3
|To: <sip:bob@home.example>;tag=b1|Call-ID: 0123456789abcdef-2|CSeq: 2 PRACK|Content-Length: 0|
at 320 peer 1|SIP/2.0 183 Progress|Via: SIP/2.0/UDP 127.0.0.1:5060;branch=z9hG4bK0123456789abcdef-4|From: "Alice" <sip:alice@home.example>;tag=0123456789abcdef-3
|To: <sip:bob@home.example>;tag=b1|Call-ID: 0123456789abcdef-2|CSeq: 1 INVITE|Contact: <sip:bob1@127.0.0.1:5071>|Require: 100rel|RSeq: 901|Content-Length: 0|
at 400 quiet
~ It is dropped: each dialog has its own numbers.
at 0 to 1|SIP/2.0 100 Trying|Via: SIP/2.0/UDP 127.0.0.1:5071;branch=z9hG4bKc1|From: "Alice" <sip:alice@home.example>;tag=t1|To: <sip:bob@home.example>|Call-ID: call1
|CSeq: 7 INVITE|Content-Length: 0|
at 0 to 1|INVITE sip:bob@home.example SIP/2.0|Via: SIP/2.0/UDP 127.0.0.1:5060;branch=z9hG4bK0123456789abcdef-4|Max-Forwards: 67
|From: "Alice" <sip:alice@home.example>;tag=0123456789abcdef-3|To: <sip:bob@home.example>|Call-ID: 0123456789abcdef-2|CSeq: 1 INVITE|Contact: <sip:127.0.0.1:5060>
|P-Asserted-Identity: <sip:alice@home.example>|Supported: 100rel|Content-Length: 0|
at 100 to 1|SIP/2.0 183 Progress|Via: SIP/2.0/UDP 127.0.0.1:5071;branch=z9hG4bKc1|From: "Alice" <sip:alice@home.example>;tag=t1
|To: <sip:bob@home.example>;tag=0123456789abcdef-1|Call-ID: call1|CSeq: 7 INVITE|Contact: <sip:127.0.0.1:5060>|Require: 100rel|RSeq: 1|Content-Length: 0|
at 300 to 1|PRACK sip:bob1@127.0.0.1:5071 SIP/2.0|Via: SIP/2.0/UDP 127.0.0.1:5060;branch=z9hG4bK0123456789abcdef-5|Max-Forwards: 67
|From: "Alice" <sip:alice@home.example>;tag=0123456789abcdef-3|To: <sip:bob@home.example>;tag=b1|Call-ID: 0123456789abcdef-2|CSeq: 2 PRACK|RAck: 900 1 INVITE|Content-Length: 0
|
at 310 to 1|SIP/2.0 200 OK|Via: SIP/2.0/UDP 127.0.0.1:5071;branch=z9hG4bKp1|From: "Alice" <sip:alice@home.example>;tag=t1|To: <sip:bob@home.example>;tag=0123456789abcdef-1
|Call-ID: call1|CSeq: 8 PRACK|Content-Length: 0|
at 320 to 1|SIP/2.0 183 Progress|Via: SIP/2.0/UDP 127.0.0.1:5071;branch=z9hG4bKc1|From: "Alice" <sip:alice@home.example>;tag=t1
|To: <sip:bob@home.example>;tag=0123456789abcdef-1|Call-ID: call1|CSeq: 7 INVITE|Contact: <sip:127.0.0.1:5060>|Require: 100rel|RSeq: 2|Content-Length: 0|
~ A gap in the target's numbers, and an UPDATE before anything rang.
=further:extension 100rel;
at 0 peer 1|INVITE sip:bob@home.example SIP/2.0|Via: SIP/2.0/UDP 127.0.0.1:5071;branch=z9hG4bKc1|Max-Forwards: 68|From: "Alice" <sip:alice@home.example>;tag=t1
|To: <sip:bob@home.example>|Call-ID: call1|CSeq: 7 INVITE|Contact: <sip:alice@127.0.0.1:5071>|P-Asserted-Identity: <sip:alice@home.example>|Supported: 100rel|Content-Length: 0
|
at 100 peer 1|SIP/2.0 199 Early Dialog Terminated|Via: SIP/2.0/UDP 127.0.0.1:5060;branch=z9hG4bK0123456789abcdef-4
|From: "Alice" <sip:alice@home.example>;tag=0123456789abcdef-3|To: <sip:bob@home.example>;tag=b1|Call-ID: 0123456789abcdef-2|CSeq: 1 INVITE|Contact: <sip:bob1@127.0.0.1:5071>
|Require: 100rel|RSeq: 10|Content-Length: 0|
at 150 peer 1|SIP/2.0 180 Ringing|Via: SIP/2.0/UDP 127.0.0.1:5060;branch=z9hG4bK0123456789abcdef-4|From: "Alice" <sip:alice@home.example>;tag=0123456789abcdef-3
|To: <sip:bob@home.example>;tag=b1|Call-ID: 0123456789abcdef-2|CSeq: 1 INVITE|Contact: <sip:bob1@127.0.0.1:5071>|Require: 100rel|RSeq: 12|Content-Length: 0|
at 200 peer 1|UPDATE sip:127.0.0.1:5060 SIP/2.0|Via: SIP/2.0/UDP 127.0.0.1:5071;branch=z9hG4bKu1|Max-Forwards: 68|From: "Alice" <sip:alice@home.example>;tag=t1
|To: <sip:bob@home.example>;tag=0123456789abcdef-1|Call-ID: call1|CSeq: 8 UPDATE|Contact: <sip:alice@127.0.0.1:5071>|Content-Length: 0|
at 250 peer 1|SIP/2.0 180 Ringing|Via: SIP/2.0/UDP 127.0.0.1:5060;branch=z9hG4bK0123456789abcdef-4|From: "Alice" <sip:alice@home.example>;tag=0123456789abcdef-3
|To: <sip:bob@home.example>;tag=b1|Call-ID: 0123456789abcdef-2|CSeq: 1 INVITE|Contact: <sip:bob1@127.0.0.1:5071>|Require: 100rel|RSeq: 11|Content-Length: 0|
at 300 peer 1|UPDATE sip:127.0.0.1:5060 SIP/2.0|Via: SIP/2.0/UDP 127.0.0.1:5071;branch=z9hG4bKu2|Max-Forwards: 68|From: "Alice" <sip:alice@home.example>;tag=t1
|To: <sip:bob@home.example>;tag=0123456789abcdef-1|Call-ID: call1|CSeq: 9 UPDATE|Contact: <sip:alice@127.0.0.1:5071>|Content-Length: 0|
at 310 peer 1|SIP/2.0 200 OK|Via: SIP/2.0/UDP 127.0.0.1:5060;branch=z9hG4bK0123456789abcdef-5|From: "Alice" <sip:alice@home.example>;tag=0123456789abcdef-3
|To: <sip:bob@home.example>;tag=b1|Call-ID: 0123456789abcdef-2|CSeq: 2 UPDATE|Contact: <sip:bob1@127.0.0.1:5071>|Content-Length: 0|
at 400 quiet
~ The answer behind the gap is dropped, and starts no time; the UPDATE may be sent again later.
at 0 to 1|SIP/2.0 100 Trying|Via: SIP/2.0/UDP 127.0.0.1:5071;branch=z9hG4bKc1|From: "Alice" <sip:alice@home.example>;tag=t1|To: <sip:bob@home.example>|Call-ID: call1
|CSeq: 7 INVITE|Content-Length: 0|
at 0 to 1|INVITE sip:bob@home.example SIP/2.0|Via: SIP/2.0/UDP 127.0.0.1:5060;branch=z9hG4bK0123456789abcdef-4|Max-Forwards: 67
|From: "Alice" <sip:alice@home.example>;tag=0123456789abcdef-3|To: <sip:bob@home.example>|Call-ID: 0123456789abcdef-2|CSeq: 1 INVITE|Contact: <sip:127.0.0.1:5060>
|P-Asserted-Identity: <sip:alice@home.example>|Supported: 100rel|Content-Length: 0|
at 100 to 1|SIP/2.0 199 Early Dialog Terminated|Via: SIP/2.0/UDP 127.0.0.1:5071;branch=z9hG4bKc1|From: "Alice" <sip:alice@home.example>;tag=t1
|To: <sip:bob@home.example>;tag=0123456789abcdef-1|Call-ID: call1|CSeq: 7 INVITE|Contact: <sip:127.0.0.1:5060>|Require: 100rel|RSeq: 1|Content-Length: 0|
at 200 to 1|SIP/2.0 500 Server Internal Error|Via: SIP/2.0/UDP 127.0.0.1:5071;branch=z9hG4bKu1|From: "Alice" <sip:alice@home.example>;tag=t1
|To: <sip:bob@home.example>;tag=0123456789abcdef-1|Call-ID: call1|CSeq: 8 UPDATE|Retry-After: 5|Content-Length: 0|
at 250 to 1|SIP/2.0 180 Ringing|Via: SIP/2.0/UDP 127.0.0.1:5071;branch=z9hG4bKc1|From: "Alice" <sip:alice@home.example>;tag=t1
|To: <sip:bob@home.example>;tag=0123456789abcdef-1|Call-ID: call1|CSeq: 7 INVITE|Contact: <sip:127.0.0.1:5060>|Require: 100rel|RSeq: 2|Content-Length: 0|
at 300 to 1|UPDATE sip:bob1@127.0.0.1:5071 SIP/2.0|Via: SIP/2.0/UDP 127.0.0.1:5060;branch=z9hG4bK0123456789abcdef-5|Max-Forwards: 67
|From: "Alice" <sip:alice@home.example>;tag=0123456789abcdef-3|To: <sip:bob@home.example>;tag=b1|Call-ID: 0123456789abcdef-2|CSeq: 2 UPDATE|Contact: <sip:127.0.0.1:5060>
|Content-Length: 0|
at 310 to 1|SIP/2.0 200 OK|Via: SIP/2.0/UDP 127.0.0.1:5071;branch=z9hG4bKu2|From: "Alice" <sip:alice@home.example>;tag=t1|To: <sip:bob@home.example>;tag=0123456789abcdef-1
|Call-ID: call1|CSeq: 9 UPDATE|Contact: <sip:127.0.0.1:5060>|Content-Length: 0|
~ A caller that does not take reliable answers.
=further:extension 100rel;
at 0 peer 1|INVITE sip:bob@home.example SIP/2.0|Via: SIP/2.0/UDP 127.0.0.1:5071;branch=z9hG4bKc1|Max-Forwards: 68|From: "Alice" <sip:alice@home.example>;tag=t1
|To: <sip:bob@home.example>|Call-ID: call1|CSeq: 7 INVITE|Contact: <sip:alice@127.0.0.1:5071>|P-Asserted-Identity: <sip:alice@home.example>|Content-Length: 0|
at 100 peer 1|SIP/2.0 183 Progress|Via: SIP/2.0/UDP 127.0.0.1:5060;branch=z9hG4bK0123456789abcdef-4|From: "Alice" <sip:alice@home.example>;tag=0123456789abcdef-3
|To: <sip:bob@home.example>;tag=b1|Call-ID: 0123456789abcdef-2|CSeq: 1 INVITE|Contact: <sip:bob1@127.0.0.1:5071>|Require: 100rel|RSeq: 900|Content-Length: 0|
at 200 peer 1|PRACK sip:127.0.0.1:5060 SIP/2.0|Via: SIP/2.0/UDP 127.0.0.1:5071;branch=z9hG4bKp1|Max-Forwards: 68|From: "Alice" <sip:alice@home.example>;tag=t1
|To: <sip:bob@home.example>;tag=0123456789abcdef-1|Call-ID: call1|CSeq: 8 PRACK|RAck: 1 7 INVITE|Content-Length: 0|
at 300 peer 1|UPDATE sip:127.0.0.1:5060 SIP/2.0|Via: SIP/2.0/UDP 127.0.0.1:5071;branch=z9hG4bKu1|Max-Forwards: 68|From: "Alice" <sip:alice@home.example>;tag=t1
|To: <sip:bob@home.example>;tag=0123456789abcdef-1|Call-ID: call1|CSeq: 9 UPDATE|Contact: <sip:alice@127.0.0.1:5071>|Content-Length: 0|
at 310 peer 1|SIP/2.0 200 OK|Via: SIP/2.0/UDP 127.0.0.1:5060;branch=z9hG4bK0123456789abcdef-5|From: "Alice" <sip:alice@home.example>;tag=0123456789abcdef-3
|To: <sip:bob@home.example>;tag=b1|Call-ID: 0123456789abcdef-2|CSeq: 2 UPDATE|Contact: <sip:bob1@127.0.0.1:5071>|Content-Length: 0|
at 400 quiet
~ The answer is relayed as any other, and a PRACK of it refused.
at 0 to 1|SIP/2.0 100 Trying|Via: SIP/2.0/UDP 127.0.0.1:5071;branch=z9hG4bKc1|From: "Alice" <sip:alice@home.example>;tag=t1|To: <sip:bob@home.example>|Call-ID: call1
|CSeq: 7 INVITE|Content-Length: 0|
at 0 to 1|INVITE sip:bob@home.example SIP/2.0|Via: SIP/2.0/UDP 127.0.0.1:5060;branch=z9hG4bK0123456789abcdef-4|Max-Forwards: 67
|From: "Alice" <sip:alice@home.example>;tag=0123456789abcdef-3|To: <sip:bob@home.example>|Call-ID: 0123456789abcdef-2|CSeq: 1 INVITE|Contact: <sip:127.0.0.1:5060>
|P-Asserted-Identity: <sip:alice@home.example>|Content-Length: 0|
at 100 to 1|SIP/2.0 183 Progress|Via: SIP/2.0/UDP 127.0.0.1:5071;branch=z9hG4bKc1|From: "Alice" <sip:alice@home.example>;tag=t1
|To: <sip:bob@home.example>;tag=0123456789abcdef-1|Call-ID: call1|CSeq: 7 INVITE|Contact: <sip:127.0.0.1:5060>|Content-Length: 0|
at 200 to 1|SIP/2.0 481 Call/Transaction Does Not Exist|Via: SIP/2.0/UDP 127.0.0.1:5071;branch=z9hG4bKp1|From: "Alice" <sip:alice@home.example>;tag=t1
|To: <sip:bob@home.example>;tag=0123456789abcdef-1|Call-ID: call1|CSeq: 8 PRACK|Content-Length: 0|
at 300 to 1|UPDATE sip:bob1@127.0.0.1:5071 SIP/2.0|Via: SIP/2.0/UDP 127.0.0.1:5060;branch=z9hG4bK0123456789abcdef-5|Max-Forwards: 67
|From: "Alice" <sip:alice@home.example>;tag=0123456789abcdef-3|To: <sip:bob@home.example>;tag=b1|Call-ID: 0123456789abcdef-2|CSeq: 2 UPDATE|Contact: <sip:127.0.0.1:5060>
|Content-Length: 0|
at 310 to 1|SIP/2.0 200 OK|Via: SIP/2.0/UDP 127.0.0.1:5071;branch=z9hG4bKu1|From: "Alice" <sip:alice@home.example>;tag=t1|To: <sip:bob@home.example>;tag=0123456789abcdef-1
|Call-ID: call1|CSeq: 9 UPDATE|Contact: <sip:127.0.0.1:5060>|Content-Length: 0|
~ PRACKs after the answer, of the target, unreadable ones, and one with an old number.
=further:extension 100rel;
at 0 peer 1|INVITE sip:bob@home.example SIP/2.0|Via: SIP/2.0/UDP 127.0.0.1:5071;branch=z9hG4bKc1|Max-Forwards: 68|From: "Alice" <sip:alice@home.example>;tag=t1
|To: <sip:bob@home.example>|Call-ID: call1|CSeq: 7 INVITE|Contact: <sip:alice@127.0.0.1:5071>|P-Asserted-Identity: <sip:alice@home.example>|Supported: 100rel|Content-Length: 0
|
at 100 peer 1|SIP/2.0 183 Progress|Via: SIP/2.0/UDP 127.0.0.1:5060;branch=z9hG4bK0123456789abcdef-4|From: "Alice" <sip:alice@home.example>;tag=0123456789abcdef-3
|To: <sip:bob@home.example>;tag=b1|Call-ID: 0123456789abcdef-2|CSeq: 1 INVITE|Contact: <sip:bob1@127.0.0.1:5071>|Require: 100rel|RSeq: 900|Content-Length: 0|
at 110 peer 1|PRACK sip:127.0.0.1:5060 SIP/2.0|Via: SIP/2.0/UDP 127.0.0.1:5071;branch=z9hG4bKg1|Max-Forwards: 68|From: <sip:bob@home.example>;tag=b1
|To: "Alice" <sip:alice@home.example>;tag=0123456789abcdef-3|Call-ID: 0123456789abcdef-2|CSeq: 1 PRACK|RAck: 1 7 INVITE|Content-Length: 0|
at 120 peer 1|PRACK sip:127.0.0.1:5060 SIP/2.0|Via: SIP/2.0/UDP 127.0.0.1:5071;branch=z9hG4bKg2|Max-Forwards: 68|From: <sip:bob@home.example>;tag=b1
|To: "Alice" <sip:alice@home.example>;tag=0123456789abcdef-3|Call-ID: 0123456789abcdef-2|CSeq: 2 PRACK|Content-Length: 0|
at 200 peer 1|SIP/2.0 200 OK|Via: SIP/2.0/UDP 127.0.0.1:5060;branch=z9hG4bK0123456789abcdef-4|From: "Alice" <sip:alice@home.example>;tag=0123456789abcdef-3
|To: <sip:bob@home.example>;tag=b1|Call-ID: 0123456789abcdef-2|CSeq: 1 INVITE|Contact: <sip:bob1@127.0.0.1:5071>|Content-Length: 0|
at 210 peer 1|PRACK sip:127.0.0.1:5060 SIP/2.0|Via: SIP/2.0/UDP 127.0.0.1:5071;branch=z9hG4bKp1|Max-Forwards: 68|From: "Alice" <sip:alice@home.example>;tag=t1
|To: <sip:bob@home.example>;tag=0123456789abcdef-1|Call-ID: call1|CSeq: 8 PRACK|RAck: 1 7 INVITE|Content-Length: 0|
at 300 peer 1|ACK sip:127.0.0.1:5060 SIP/2.0|Via: SIP/2.0/UDP 127.0.0.1:5071;branch=z9hG4bKk1|Max-Forwards: 68|From: "Alice" <sip:alice@home.example>;tag=t1
|To: <sip:bob@home.example>;tag=0123456789abcdef-1|Call-ID: call1|CSeq: 7 ACK|Content-Length: 0|
at 310 peer 1|PRACK sip:127.0.0.1:5060 SIP/2.0|Via: SIP/2.0/UDP 127.0.0.1:5071;branch=z9hG4bKp2|Max-Forwards: 68|From: "Alice" <sip:alice@home.example>;tag=t1
|To: <sip:bob@home.example>;tag=0123456789abcdef-1|Call-ID: call1|CSeq: 9 PRACK|RAck: 1 7 INVITE|Content-Length: 0|
at 320 peer 1|PRACK sip:127.0.0.1:5060 SIP/2.0|Via: SIP/2.0/UDP 127.0.0.1:5071;branch=z9hG4bKp3|Max-Forwards: 68|From: "Alice" <sip:alice@home.example>;tag=t1
|To: <sip:bob@home.example>;tag=0123456789abcdef-1|Call-ID: call1|CSeq: 10 PRACK|RAck: 1 7|Content-Length: 0|
at 330 peer 1|PRACK sip:127.0.0.1:5060 SIP/2.0|Via: SIP/2.0/UDP 127.0.0.1:5071;branch=z9hG4bKp4|Max-Forwards: 68|From: "Alice" <sip:alice@home.example>;tag=t1
|To: <sip:bob@home.example>;tag=0123456789abcdef-1|Call-ID: call1|CSeq: 7 PRACK|RAck: 1 7 INVITE|Content-Length: 0|
at 40000 quiet
~ Each has its refusal, and the call stands.
at 0 to 1|SIP/2.0 100 Trying|Via: SIP/2.0/UDP 127.0.0.1:5071;branch=z9hG4bKc1|From: "Alice" <sip:alice@home.example>;tag=t1|To: <sip:bob@home.example>|Call-ID: call1
|CSeq: 7 INVITE|Content-Length: 0|
at 0 to 1|INVITE sip:bob@home.example SIP/2.0|Via: SIP/2.0/UDP 127.0.0.1:5060;branch=z9hG4bK0123456789abcdef-4|Max-Forwards: 67
|From: "Alice" <sip:alice@home.example>;tag=0123456789abcdef-3|To: <sip:bob@home.example>|Call-ID: 0123456789abcdef-2|CSeq: 1 INVITE|Contact: <sip:127.0.0.1:5060>
|P-Asserted-Identity: <sip:alice@home.example>|Supported: 100rel|Content-Length: 0|
at 100 to 1|SIP/2.0 183 Progress|Via: SIP/2.0/UDP 127.0.0.1:5071;branch=z9hG4bKc1|From: "Alice" <sip:alice@home.example>;tag=t1
|To: <sip:bob@home.example>;tag=0123456789abcdef-1|Call-ID: call1|CSeq: 7 INVITE|Contact: <sip:127.0.0.1:5060>|Require: 100rel|RSeq: 1|Content-Length: 0|
at 110 to 1|SIP/2.0 481 Call/Transaction Does Not Exist|Via: SIP/2.0/UDP 127.0.0.1:5071;branch=z9hG4bKg1|From: <sip:bob@home.example>;tag=b1
|To: "Alice" <sip:alice@home.example>;tag=0123456789abcdef-3|Call-ID: 0123456789abcdef-2|CSeq: 1 PRACK|Content-Length: 0|
at 120 to 1|SIP/2.0 400 Bad Request|Via: SIP/2.0/UDP 127.0.0.1:5071;branch=z9hG4bKg2|From: <sip:bob@home.example>;tag=b1
|To: "Alice" <sip:alice@home.example>;tag=0123456789abcdef-3|Call-ID: 0123456789abcdef-2|CSeq: 2 PRACK|Content-Length: 0|
at 200 to 1|SIP/2.0 200 OK|Via: SIP/2.0/UDP 127.0.0.1:5071;branch=z9hG4bKc1|From: "Alice" <sip:alice@home.example>;tag=t1|To: <sip:bob@home.example>;tag=0123456789abcdef-1
|Call-ID: call1|CSeq: 7 INVITE|Contact: <sip:127.0.0.1:5060>|Content-Length: 0|
at 210 to 1|SIP/2.0 481 Call/Transaction Does Not Exist|Via: SIP/2.0/UDP 127.0.0.1:5071;branch=z9hG4bKp1|From: "Alice" <sip:alice@home.example>;tag=t1
|To: <sip:bob@home.example>;tag=0123456789abcdef-1|Call-ID: call1|CSeq: 8 PRACK|Content-Length: 0|
at 300 to 1|ACK sip:bob1@127.0.0.1:5071 SIP/2.0|Via: SIP/2.0/UDP 127.0.0.1:5060;branch=z9hG4bK0123456789abcdef-5|Max-Forwards: 67
|From: "Alice" <sip:alice@home.example>;tag=0123456789abcdef-3|To: <sip:bob@home.example>;tag=b1|Call-ID: 0123456789abcdef-2|CSeq: 1 ACK|Content-Length: 0|
at 310 to 1|SIP/2.0 481 Call/Transaction Does Not Exist|Via: SIP/2.0/UDP 127.0.0.1:5071;branch=z9hG4bKp2|From: "Alice" <sip:alice@home.example>;tag=t1
|To: <sip:bob@home.example>;tag=0123456789abcdef-1|Call-ID: call1|CSeq: 9 PRACK|Content-Length: 0|
at 320 to 1|SIP/2.0 400 Bad Request|Via: SIP/2.0/UDP 127.0.0.1:5071;branch=z9hG4bKp3|From: "Alice" <sip:alice@home.example>;tag=t1
|To: <sip:bob@home.example>;tag=0123456789abcdef-1|Call-ID: call1|CSeq: 10 PRACK|Content-Length: 0|
at 330 to 1|SIP/2.0 500 Server Internal Error|Via: SIP/2.0/UDP 127.0.0.1:5071;branch=z9hG4bKp4|From: "Alice" <sip:alice@home.example>;tag=t1
|To: <sip:bob@home.example>;tag=0123456789abcdef-1|Call-ID: call1|CSeq: 7 PRACK|Content-Length: 0|
~ The INVITE is heard again, before and after a reliable answer was sent again.
=further:extension 100rel;
at 0 peer 1|INVITE sip:bob@home.example SIP/2.0|Via: SIP/2.0/UDP 127.0.0.1:5071;branch=z9hG4bKc1|Max-Forwards: 68|From: "Alice" <sip:alice@home.example>;tag=t1
|To: <sip:bob@home.example>|Call-ID: call1|CSeq: 7 INVITE|Contact: <sip:alice@127.0.0.1:5071>|P-Asserted-Identity: <sip:alice@home.example>|Supported: 100rel|Content-Length: 0
|
at 100 peer 1|SIP/2.0 183 Progress|Via: SIP/2.0/UDP 127.0.0.1:5060;branch=z9hG4bK0123456789abcdef-4|From: "Alice" <sip:alice@home.example>;tag=0123456789abcdef-3
|To: <sip:bob@home.example>;tag=b1|Call-ID: 0123456789abcdef-2|CSeq: 1 INVITE|Contact: <sip:bob1@127.0.0.1:5071>|Require: 100rel|RSeq: 900|Content-Length: 0|
at 200 peer 1|INVITE sip:bob@home.example SIP/2.0|Via: SIP/2.0/UDP 127.0.0.1:5071;branch=z9hG4bKc1|Max-Forwards: 68|From: "Alice" <sip:alice@home.example>;tag=t1
|To: <sip:bob@home.example>|Call-ID: call1|CSeq: 7 INVITE|Contact: <sip:alice@127.0.0.1:5071>|P-Asserted-Identity: <sip:alice@home.example>|Supported: 100rel|Content-Length: 0
|
at 300 peer 1|SIP/2.0 180 Ringing|Via: SIP/2.0/UDP 127.0.0.1:5060;branch=z9hG4bK0123456789abcdef-4|From: "Alice" <sip:alice@home.example>;tag=0123456789abcdef-3
|To: <sip:bob@home.example>;tag=b1|Call-ID: 0123456789abcdef-2|CSeq: 1 INVITE|Contact: <sip:bob1@127.0.0.1:5071>|Content-Length: 0|
at 700 peer 1|INVITE sip:bob@home.example SIP/2.0|Via: SIP/2.0/UDP 127.0.0.1:5071;branch=z9hG4bKc1|Max-Forwards: 68|From: "Alice" <sip:alice@home.example>;tag=t1
|To: <sip:bob@home.example>|Call-ID: call1|CSeq: 7 INVITE|Contact: <sip:alice@127.0.0.1:5071>|P-Asserted-Identity: <sip:alice@home.example>|Supported: 100rel|Content-Length: 0
|
at 800 peer 1|PRACK sip:127.0.0.1:5060 SIP/2.0|Via: SIP/2.0/UDP 127.0.0.1:5071;branch=z9hG4bKp1|Max-Forwards: 68|From: "Alice" <sip:alice@home.example>;tag=t1
|To: <sip:bob@home.example>;tag=0123456789abcdef-1|Call-ID: call1|CSeq: 8 PRACK|RAck: 1 7 INVITE|Content-Length: 0|
at 810 peer 1|SIP/2.0 200 OK|Via: SIP/2.0/UDP 127.0.0.1:5060;branch=z9hG4bK0123456789abcdef-5|From: "Alice" <sip:alice@home.example>;tag=0123456789abcdef-3
|To: <sip:bob@home.example>;tag=b1|Call-ID: 0123456789abcdef-2|CSeq: 2 PRACK|Content-Length: 0|
at 2000 quiet
~ It gives the last response, with its number.
at 0 to 1|SIP/2.0 100 Trying|Via: SIP/2.0/UDP 127.0.0.1:5071;branch=z9hG4bKc1|From: "Alice" <sip:alice@home.example>;tag=t1|To: <sip:bob@home.example>|Call-ID: call1
|CSeq: 7 INVITE|Content-Length: 0|
at 0 to 1|INVITE sip:bob@home.example SIP/2.0|Via: SIP/2.0/UDP 127.0.0.1:5060;branch=z9hG4bK0123456789abcdef-4|Max-Forwards: 67
|From: "Alice" <sip:alice@home.example>;tag=0123456789abcdef-3|To: <sip:bob@home.example>|Call-ID: 0123456789abcdef-2|CSeq: 1 INVITE|Contact: <sip:127.0.0.1:5060>
|P-Asserted-Identity: <sip:alice@home.example>|Supported: 100rel|Content-Length: 0|
at 100 to 1|SIP/2.0 183 Progress|Via: SIP/2.0/UDP 127.0.0.1:5071;branch=z9hG4bKc1|From: "Alice" <sip:alice@home.example>;tag=t1
|To: <sip:bob@home.example>;tag=0123456789abcdef-1|Call-ID: call1|CSeq: 7 INVITE|Contact: <sip:127.0.0.1:5060>|Require: 100rel|RSeq: 1|Content-Length: 0|
at 200 to 1|SIP/2.0 183 Progress|Via: SIP/2.0/UDP 127.0.0.1:5071;branch=z9hG4bKc1|From: "Alice" <sip:alice@home.example>;tag=t1
|To: <sip:bob@home.example>;tag=0123456789abcdef-1|Call-ID: call1|CSeq: 7 INVITE|Contact: <sip:127.0.0.1:5060>|Require: 100rel|RSeq: 1|Content-Length: 0|
at 300 to 1|SIP/2.0 180 Ringing|Via: SIP/2.0/UDP 127.0.0.1:5071;branch=z9hG4bKc1|From: "Alice" <sip:alice@home.example>;tag=t1
|To: <sip:bob@home.example>;tag=0123456789abcdef-1|Call-ID: call1|CSeq: 7 INVITE|Contact: <sip:127.0.0.1:5060>|Content-Length: 0|
at 600 to 1|SIP/2.0 183 Progress|Via: SIP/2.0/UDP 127.0.0.1:5071;branch=z9hG4bKc1|From: "Alice" <sip:alice@home.example>;tag=t1
|To: <sip:bob@home.example>;tag=0123456789abcdef-1|Call-ID: call1|CSeq: 7 INVITE|Contact: <sip:127.0.0.1:5060>|Require: 100rel|RSeq: 1|Content-Length: 0|
at 700 to 1|SIP/2.0 180 Ringing|Via: SIP/2.0/UDP 127.0.0.1:5071;branch=z9hG4bKc1|From: "Alice" <sip:alice@home.example>;tag=t1
|To: <sip:bob@home.example>;tag=0123456789abcdef-1|Call-ID: call1|CSeq: 7 INVITE|Contact: <sip:127.0.0.1:5060>|Content-Length: 0|
at 800 to 1|PRACK sip:bob1@127.0.0.1:5071 SIP/2.0|Via: SIP/2.0/UDP 127.0.0.1:5060;branch=z9hG4bK0123456789abcdef-5|Max-Forwards: 67
|From: "Alice" <sip:alice@home.example>;tag=0123456789abcdef-3|To: <sip:bob@home.example>;tag=b1|Call-ID: 0123456789abcdef-2|CSeq: 2 PRACK|RAck: 900 1 INVITE|Content-Length: 0
|
at 810 to 1|SIP/2.0 200 OK|Via: SIP/2.0/UDP 127.0.0.1:5071;branch=z9hG4bKp1|From: "Alice" <sip:alice@home.example>;tag=t1|To: <sip:bob@home.example>;tag=0123456789abcdef-1
|Call-ID: call1|CSeq: 8 PRACK|Content-Length: 0|
~ Seventeen reliable answers without a PRACK.
=further:extension 100rel;
at 0 peer 1|INVITE sip:bob@home.example SIP/2.0|Via: SIP/2.0/UDP 127.0.0.1:5071;branch=z9hG4bKc1|Max-Forwards: 68|From: "Alice" <sip:alice@home.example>;tag=t1
|To: <sip:bob@home.example>|Call-ID: call1|CSeq: 7 INVITE|Contact: <sip:alice@127.0.0.1:5071>|P-Asserted-Identity: <sip:alice@home.example>|Supported: 100rel|Content-Length: 0
|
at 100 peer 1|SIP/2.0 183 Progress|Via: SIP/2.0/UDP 127.0.0.1:5060;branch=z9hG4bK0123456789abcdef-4|From: "Alice" <sip:alice@home.example>;tag=0123456789abcdef-3
|To: <sip:bob@home.example>;tag=b1|Call-ID: 0123456789abcdef-2|CSeq: 1 INVITE|Contact: <sip:bob1@127.0.0.1:5071>|Require: 100rel|RSeq: 500|Content-Length: 0|
at 101 peer 1|SIP/2.0 183 Progress|Via: SIP/2.0/UDP 127.0.0.1:5060;branch=z9hG4bK0123456789abcdef-4|From: "Alice" <sip:alice@home.example>;tag=0123456789abcdef-3
|To: <sip:bob@home.example>;tag=b1|Call-ID: 0123456789abcdef-2|CSeq: 1 INVITE|Contact: <sip:bob1@127.0.0.1:5071>|Require: 100rel|RSeq: 501|Content-Length: 0|
at 102 peer 1|SIP/2.0 183 Progress|Via: SIP/2.0/UDP 127.0.0.1:5060;branch=z9hG4bK0123456789abcdef-4|From: "Alice" <sip:alice@home.example>;tag=0123456789abcdef-3
|To: <sip:bob@home.example>;tag=b1|Call-ID: 0123456789abcdef-2|CSeq: 1 INVITE|Contact: <sip:bob1@127.0.0.1:5071>|Require: 100rel|RSeq: 502|Content-Length: 0|
at 103 peer 1|SIP/2.0 183 Progress|Via: SIP/2.0/UDP 127.0.0.1:5060;branch=z9hG4bK0123456789abcdef-4|From: "Alice" <sip:alice@home.example>;tag=0123456789abcdef-3
|To: <sip:bob@home.example>;tag=b1|Call-ID: 0123456789abcdef-2|CSeq: 1 INVITE|Contact: <sip:bob1@127.0.0.1:5071>|Require: 100rel|RSeq: 503|Content-Length: 0|
at 104 peer 1|SIP/2.0 183 Progress|Via: SIP/2.0/UDP 127.0.0.1:5060;branch=z9hG4bK0123456789abcdef-4|From: "Alice" <sip:alice@home.example>;tag=0123456789abcdef-3
|To: <sip:bob@home.example>;tag=b1|Call-ID: 0123456789abcdef-2|CSeq: 1 INVITE|Contact: <sip:bob1@127.0.0.1:5071>|Require: 100rel|RSeq: 504|Content-Length: 0|
at 105 peer 1|SIP/2.0 183 Progress|Via: SIP/2.0/UDP 127.0.0.1:5060;branch=z9hG4bK0123456789abcdef-4|From: "Alice" <sip:alice@home.example>;tag=0123456789abcdef-3
|To: <sip:bob@home.example>;tag=b1|Call-ID: 0123456789abcdef-2|CSeq: 1 INVITE|Contact: <sip:bob1@127.0.0.1:5071>|Require: 100rel|RSeq: 505|Content-Length: 0|
at 106 peer 1|SIP/2.0 183 Progress|Via: SIP/2.0/UDP 127.0.0.1:5060;branch=z9hG4bK0123456789abcdef-4|From: "Alice" <sip:alice@home.example>;tag=0123456789abcdef-3
|To: <sip:bob@home.example>;tag=b1|Call-ID: 0123456789abcdef-2|CSeq: 1 INVITE|Contact: <sip:bob1@127.0.0.1:5071>|Require: 100rel|RSeq: 506|Content-Length: 0|
at 107 peer 1|SIP/2.0 183 Progress|Via: SIP/2.0/UDP 127.0.0.1:5060;branch=z9hG4bK0123456789abcdef-4|From: "Alice" <sip:alice@home.example>;tag=0123456789abcdef-3
|To: <sip:bob@home.example>;tag=b1|Call-ID: 0123456789abcdef-2|CSeq: 1 INVITE|Contact: <sip:bob1@127.0.0.1:5071>|Require: 100rel|RSeq: 507|Content-Length: 0|
at 108 peer 1|SIP/2.0 183 Progress|Via: SIP/2.0/UDP 127.0.0.1:5060;branch=z9hG4bK0123456789abcdef-4|From: "Alice" <sip:alice@home.example>;tag=0123456789abcdef-3
|To: <sip:bob@home.example>;tag=b1|Call-ID: 0123456789abcdef-2|CSeq: 1 INVITE|Contact: <sip:bob1@127.0.0.1:5071>|Require: 100rel|RSeq: 508|Content-Length: 0|
at 109 peer 1|SIP/2.0 183 Progress|Via: SIP/2.0/UDP 127.0.0.1:5060;branch=z9hG4bK0123456789abcdef-4|From: "Alice" <sip:alice@home.example>;tag=0123456789abcdef-3
|To: <sip:bob@home.example>;tag=b1|Call-ID: 0123456789abcdef-2|CSeq: 1 INVITE|Contact: <sip:bob1@127.0.0.1:5071>|Require: 100rel|RSeq: 509|Content-Length: 0|
at 110 peer 1|SIP/2.0 183 Progress|Via: SIP/2.0/UDP 127.0.0.1:5060;branch=z9hG4bK0123456789abcdef-4|From: "Alice" <sip:alice@home.example>;tag=0123456789abcdef-3
|To: <sip:bob@home.example>;tag=b1|Call-ID: 0123456789abcdef-2|CSeq: 1 INVITE|Contact: <sip:bob1@127.0.0.1:5071>|Require: 100rel|RSeq: 510|Content-Length: 0|
at 111 peer 1|SIP/2.0 183 Progress|Via: SIP/2.0/UDP 127.0.0.1:5060;branch=z9hG4bK0123456789abcdef-4|From: "Alice" <sip:alice@home.example>;tag=0123456789abcdef-3
|To: <sip:bob@home.example>;tag=b1|Call-ID: 0123456789abcdef-2|CSeq: 1 INVITE|Contact: <sip:bob1@127.0.0.1:5071>|Require: 100rel|RSeq: 511|Content-Length: 0|
at 112 peer 1|SIP/2.0 183 Progress|Via: SIP/2.0/UDP 127.0.0.1:5060;branch=z9hG4bK0123456789abcdef-4|From: "Alice" <sip:alice@home.example>;tag=0123456789abcdef-3
|To: <sip:bob@home.example>;tag=b1|Call-ID: 0123456789abcdef-2|CSeq: 1 INVITE|Contact: <sip:bob1@127.0.0.1:5071>|Require: 100rel|RSeq: 512|Content-Length: 0|
at 113 peer 1|SIP/2.0 183 Progress|Via: SIP/2.0/UDP 127.0.0.1:5060;branch=z9hG4bK0123456789abcdef-4|From: "Alice" <sip:alice@home.example>;tag=0123456789abcdef-3
|To: <sip:bob@home.example>;tag=b1|Call-ID: 0123456789abcdef-2|CSeq: 1 INVITE|Contact: <sip:bob1@127.0.0.1:5071>|Require: 100rel|RSeq: 513|Content-Length: 0|
at 114 peer 1|SIP/2.0 183 Progress|Via: SIP/2.0/UDP 127.0.0.1:5060;branch=z9hG4bK0123456789abcdef-4|From: "Alice" <sip:alice@home.example>;tag=0123456789abcdef-3
|To: <sip:bob@home.example>;tag=b1|Call-ID: 0123456789abcdef-2|CSeq: 1 INVITE|Contact: <sip:bob1@127.0.0.1:5071>|Require: 100rel|RSeq: 514|Content-Length: 0|
at 115 peer 1|SIP/2.0 183 Progress|Via: SIP/2.0/UDP 127.0.0.1:5060;branch=z9hG4bK0123456789abcdef-4|From: "Alice" <sip:alice@home.example>;tag=0123456789abcdef-3
|To: <sip:bob@home.example>;tag=b1|Call-ID: 0123456789abcdef-2|CSeq: 1 INVITE|Contact: <sip:bob1@127.0.0.1:5071>|Require: 100rel|RSeq: 515|Content-Length: 0|
at 150 peer 1|SIP/2.0 183 Progress|Via: SIP/2.0/UDP 127.0.0.1:5060;branch=z9hG4bK0123456789abcdef-4|From: "Alice" <sip:alice@home.example>;tag=0123456789abcdef-3
|To: <sip:bob@home.example>;tag=b1|Call-ID: 0123456789abcdef-2|CSeq: 1 INVITE|Contact: <sip:bob1@127.0.0.1:5071>|Require: 100rel|RSeq: 516|Content-Length: 0|
at 200 peer 1|PRACK sip:127.0.0.1:5060 SIP/2.0|Via: SIP/2.0/UDP 127.0.0.1:5071;branch=z9hG4bKp1|Max-Forwards: 68|From: "Alice" <sip:alice@home.example>;tag=t1
|To: <sip:bob@home.example>;tag=0123456789abcdef-1|Call-ID: call1|CSeq: 8 PRACK|RAck: 1 7 INVITE|Content-Length: 0|
at 210 peer 1|SIP/2.0 200 OK|Via: SIP/2.0/UDP 127.0.0.1:5060;branch=z9hG4bK0123456789abcdef-5|From: "Alice" <sip:alice@home.example>;tag=0123456789abcdef-3
|To: <sip:bob@home.example>;tag=b1|Call-ID: 0123456789abcdef-2|CSeq: 2 PRACK|Content-Length: 0|
at 250 peer 1|SIP/2.0 183 Progress|Via: SIP/2.0/UDP 127.0.0.1:5060;branch=z9hG4bK0123456789abcdef-4|From: "Alice" <sip:alice@home.example>;tag=0123456789abcdef-3
|To: <sip:bob@home.example>;tag=b1|Call-ID: 0123456789abcdef-2|CSeq: 1 INVITE|Contact: <sip:bob1@127.0.0.1:5071>|Require: 100rel|RSeq: 516|Content-Length: 0|
at 300 quiet
~ Sixteen are relayed; once one is acknowledged the next one is.
at 0 to 1|SIP/2.0 100 Trying|Via: SIP/2.0/UDP 127.0.0.1:5071;branch=z9hG4bKc1|From: "Alice" <sip:alice@home.example>;tag=t1|To: <sip:bob@home.example>|Call-ID: call1
|CSeq: 7 INVITE|Content-Length: 0|
at 0 to 1|INVITE sip:bob@home.example SIP/2.0|Via: SIP/2.0/UDP 127.0.0.1:5060;branch=z9hG4bK0123456789abcdef-4|Max-Forwards: 67
|From: "Alice" <sip:alice@home.example>;tag=0123456789abcdef-3|To: <sip:bob@home.example>|Call-ID: 0123456789abcdef-2|CSeq: 1 INVITE|Contact: <sip:127.0.0.1:5060>
|P-Asserted-Identity: <sip:alice@home.example>|Supported: 100rel|Content-Length: 0|
at 100 to 1|SIP/2.0 183 Progress|Via: SIP/2.0/UDP 127.0.0.1:5071;branch=z9hG4bKc1|From: "Alice" <sip:alice@home.example>;tag=t1
|To: <sip:bob@home.example>;tag=0123456789abcdef-1|Call-ID: call1|CSeq: 7 INVITE|Contact: <sip:127.0.0.1:5060>|Require: 100rel|RSeq: 1|Content-Length: 0|
at 101 to 1|SIP/2.0 183 Progress|Via: SIP/2.0/UDP 127.0.0.1:5071;branch=z9hG4bKc1|From: "Alice" <sip:alice@home.example>;tag=t1
|To: <sip:bob@home.example>;tag=0123456789abcdef-1|Call-ID: call1|CSeq: 7 INVITE|Contact: <sip:127.0.0.1:5060>|Require: 100rel|RSeq: 2|Content-Length: 0|
at 102 to 1|SIP/2.0 183 Progress|Via: SIP/2.0/UDP 127.0.0.1:5071;branch=z9hG4bKc1|From: "Alice" <sip:alice@home.example>;tag=t1
|To: <sip:bob@home.example>;tag=0123456789abcdef-1|Call-ID: call1|CSeq: 7 INVITE|Contact: <sip:127.0.0.1:5060>|Require: 100rel|RSeq: 3|Content-Length: 0|
at 103 to 1|SIP/2.0 183 Progress|Via: SIP/2.0/UDP 127.0.0.1:5071;branch=z9hG4bKc1|From: "Alice" <sip:alice@home.example>;tag=t1
|To: <sip:bob@home.example>;tag=0123456789abcdef-1|Call-ID: call1|CSeq: 7 INVITE|Contact: <sip:127.0.0.1:5060>|Require: 100rel|RSeq: 4|Content-Length: 0|
at 104 to 1|SIP/2.0 183 Progress|Via: SIP/2.0/UDP 127.0.0.1:5071;branch=z9hG4bKc1|From: "Alice" <sip:alice@home.example>;tag=t1
|To: <sip:bob@home.example>;tag=0123456789abcdef-1|Call-ID: call1|CSeq: 7 INVITE|Contact: <sip:127.0.0.1:5060>|Require: 100rel|RSeq: 5|Content-Length: 0|
at 105 to 1|SIP/2.0 183 Progress|Via: SIP/2.0/UDP 127.0.0.1:5071;branch=z9hG4bKc1|From: "Alice" <sip:alice@home.example>;tag=t1
|To: <sip:bob@home.example>;tag=0123456789abcdef-1|Call-ID: call1|CSeq: 7 INVITE|Contact: <sip:127.0.0.1:5060>|Require: 100rel|RSeq: 6|Content-Length: 0|
at 106 to 1|SIP/2.0 183 Progress|Via: SIP/2.0/UDP 127.0.0.1:5071;branch=z9hG4bKc1|From: "Alice" <sip:alice@home.example>;tag=t1
|To: <sip:bob@home.example>;tag=0123456789abcdef-1|Call-ID: call1|CSeq: 7 INVITE|Contact: <sip:127.0.0.1:5060>|Require: 100rel|RSeq: 7|Content-Length: 0|
at 107 to 1|SIP/2.0 183 Progress|Via: SIP/2.0/UDP 127.0.0.1:5071;branch=z9hG4bKc1|From: "Alice" <sip:alice@home.example>;tag=t1
|To: <sip:bob@home.example>;tag=0123456789abcdef-1|Call-ID: call1|CSeq: 7 INVITE|Contact: <sip:127.0.0.1:5060>|Require: 100rel|RSeq: 8|Content-Length: 0|
at 108 to 1|SIP/2.0 183 Progress|Via: SIP/2.0/UDP 127.0.0.1:5071;branch=z9hG4bKc1|From: "Alice" <sip:alice@home.example>;tag=t1
|To: <sip:bob@home.example>;tag=0123456789abcdef-1|Call-ID: call1|CSeq: 7 INVITE|Contact: <sip:127.0.0.1:5060>|Require: 100rel|RSeq: 9|Content-Length: 0|
at 109 to 1|SIP/2.0 183 Progress|Via: SIP/2.0/UDP 127.0.0.1:5071;branch=z9hG4bKc1|From: "Alice" <sip:alice@home.example>;tag=t1
|To: <sip:bob@home.example>;tag=0123456789abcdef-1|Call-ID: call1|CSeq: 7 INVITE|Contact: <sip:127.0.0.1:5060>|Require: 100rel|RSeq: 10|Content-Length: 0|
at 110 to 1|SIP/2.0 183 Progress|Via: SIP/2.0/UDP 127.0.0.1:5071;branch=z9hG4bKc1|From: "Alice" <sip:alice@home.example>;tag=t1
|To: <sip:bob@home.example>;tag=0123456789abcdef-1|Call-ID: call1|CSeq: 7 INVITE|Contact: <sip:127.0.0.1:5060>|Require: 100rel|RSeq: 11|Content-Length: 0|
at 111 to 1|SIP/2.0 183 Progress|Via: SIP/2.0/UDP 127.0.0.1:5071;branch=z9hG4bKc1|From: "Alice" <sip:alice@home.example>;tag=t1
|To: <sip:bob@home.example>;tag=0123456789abcdef-1|Call-ID: call1|CSeq: 7 INVITE|Contact: <sip:127.0.0.1:5060>|Require: 100rel|RSeq: 12|Content-Length: 0|
at 112 to 1|SIP/2.0 183 Progress|Via: SIP/2.0/UDP 127.0.0.1:5071;branch=z9hG4bKc1|From: "Alice" <sip:alice@home.example>;tag=t1
|To: <sip:bob@home.example>;tag=0123456789abcdef-1|Call-ID: call1|CSeq: 7 INVITE|Contact: <sip:127.0.0.1:5060>|Require: 100rel|RSeq: 13|Content-Length: 0|
at 113 to 1|SIP/2.0 183 Progress|Via: SIP/2.0/UDP 127.0.0.1:5071;branch=z9hG4bKc1|From: "Alice" <sip:alice@home.example>;tag=t1
|To: <sip:bob@home.example>;tag=0123456789abcdef-1|Call-ID: call1|CSeq: 7 INVITE|Contact: <sip:127.0.0.1:5060>|Require: 100rel|RSeq: 14|Content-Length: 0|
at 114 to 1|SIP/2.0 183 Progress|Via: SIP/2.0/UDP 127.0.0.1:5071;branch=z9hG4bKc1|From: "Alice" <sip:alice@home.example>;tag=t1
|To: <sip:bob@home.example>;tag=0123456789abcdef-1|Call-ID: call1|CSeq: 7 INVITE|Contact: <sip:127.0.0.1:5060>|Require: 100rel|RSeq: 15|Content-Length: 0|
at 115 to 1|SIP/2.0 183 Progress|Via: SIP/2.0/UDP 127.0.0.1:5071;branch=z9hG4bKc1|From: "Alice" <sip:alice@home.example>;tag=t1
|To: <sip:bob@home.example>;tag=0123456789abcdef-1|Call-ID: call1|CSeq: 7 INVITE|Contact: <sip:127.0.0.1:5060>|Require: 100rel|RSeq: 16|Content-Length: 0|
at 200 to 1|PRACK sip:bob1@127.0.0.1:5071 SIP/2.0|Via: SIP/2.0/UDP 127.0.0.1:5060;branch=z9hG4bK0123456789abcdef-5|Max-Forwards: 67
|From: "Alice" <sip:alice@home.example>;tag=0123456789abcdef-3|To: <sip:bob@home.example>;tag=b1|Call-ID: 0123456789abcdef-2|CSeq: 2 PRACK|RAck: 500 1 INVITE|Content-Length: 0
|
at 210 to 1|SIP/2.0 200 OK|Via: SIP/2.0/UDP 127.0.0.1:5071;branch=z9hG4bKp1|From: "Alice" <sip:alice@home.example>;tag=t1|To: <sip:bob@home.example>;tag=0123456789abcdef-1
|Call-ID: call1|CSeq: 8 PRACK|Content-Length: 0|
at 250 to 1|SIP/2.0 183 Progress|Via: SIP/2.0/UDP 127.0.0.1:5071;branch=z9hG4bKc1|From: "Alice" <sip:alice@home.example>;tag=t1
|To: <sip:bob@home.example>;tag=0123456789abcdef-1|Call-ID: call1|CSeq: 7 INVITE|Contact: <sip:127.0.0.1:5060>|Require: 100rel|RSeq: 17|Content-Length: 0|
"#;

#[test]
fn reliable_answers(rt: HostRuntime) {
    assert_right(&rt, "RELIABLE", wrong_run(rt.alloc(), RELIABLE));
}

/// What is in flight where the attempt is left or the call ends, INVITEs next to it, and late 2xx.
const IN_FLIGHT: &[u8] = br#"~ The target refuses while a PRACK and an UPDATE are in flight.
=further:extension 100rel;
at 0 peer 1|INVITE sip:bob@home.example SIP/2.0|Via: SIP/2.0/UDP 127.0.0.1:5071;branch=z9hG4bKc1|Max-Forwards: 68|From: "Alice" <sip:alice@home.example>;tag=t1
|To: <sip:bob@home.example>|Call-ID: call1|CSeq: 7 INVITE|Contact: <sip:alice@127.0.0.1:5071>|P-Asserted-Identity: <sip:alice@home.example>|Supported: 100rel|Content-Length: 0
|
at 100 peer 1|SIP/2.0 183 Progress|Via: SIP/2.0/UDP 127.0.0.1:5060;branch=z9hG4bK0123456789abcdef-4|From: "Alice" <sip:alice@home.example>;tag=0123456789abcdef-3
|To: <sip:bob@home.example>;tag=b1|Call-ID: 0123456789abcdef-2|CSeq: 1 INVITE|Contact: <sip:bob1@127.0.0.1:5071>|Require: 100rel|RSeq: 900|Content-Length: 0|
at 200 peer 1|UPDATE sip:127.0.0.1:5060 SIP/2.0|Via: SIP/2.0/UDP 127.0.0.1:5071;branch=z9hG4bKu1|Max-Forwards: 68|From: "Alice" <sip:alice@home.example>;tag=t1
|To: <sip:bob@home.example>;tag=0123456789abcdef-1|Call-ID: call1|CSeq: 8 UPDATE|Contact: <sip:alice@127.0.0.1:5071>|Content-Length: 0|
at 210 peer 1|PRACK sip:127.0.0.1:5060 SIP/2.0|Via: SIP/2.0/UDP 127.0.0.1:5071;branch=z9hG4bKp1|Max-Forwards: 68|From: "Alice" <sip:alice@home.example>;tag=t1
|To: <sip:bob@home.example>;tag=0123456789abcdef-1|Call-ID: call1|CSeq: 9 PRACK|RAck: 1 7 INVITE|Content-Length: 0|
at 300 peer 1|SIP/2.0 603 Decline|Via: SIP/2.0/UDP 127.0.0.1:5060;branch=z9hG4bK0123456789abcdef-4|From: "Alice" <sip:alice@home.example>;tag=0123456789abcdef-3
|To: <sip:bob@home.example>;tag=b1|Call-ID: 0123456789abcdef-2|CSeq: 1 INVITE|Content-Length: 0|
at 400 quiet
~ The PRACK has its 481 and the UPDATE its 487, before all else.
at 0 to 1|SIP/2.0 100 Trying|Via: SIP/2.0/UDP 127.0.0.1:5071;branch=z9hG4bKc1|From: "Alice" <sip:alice@home.example>;tag=t1|To: <sip:bob@home.example>|Call-ID: call1
|CSeq: 7 INVITE|Content-Length: 0|
at 0 to 1|INVITE sip:bob@home.example SIP/2.0|Via: SIP/2.0/UDP 127.0.0.1:5060;branch=z9hG4bK0123456789abcdef-4|Max-Forwards: 67
|From: "Alice" <sip:alice@home.example>;tag=0123456789abcdef-3|To: <sip:bob@home.example>|Call-ID: 0123456789abcdef-2|CSeq: 1 INVITE|Contact: <sip:127.0.0.1:5060>
|P-Asserted-Identity: <sip:alice@home.example>|Supported: 100rel|Content-Length: 0|
at 100 to 1|SIP/2.0 183 Progress|Via: SIP/2.0/UDP 127.0.0.1:5071;branch=z9hG4bKc1|From: "Alice" <sip:alice@home.example>;tag=t1
|To: <sip:bob@home.example>;tag=0123456789abcdef-1|Call-ID: call1|CSeq: 7 INVITE|Contact: <sip:127.0.0.1:5060>|Require: 100rel|RSeq: 1|Content-Length: 0|
at 200 to 1|UPDATE sip:bob1@127.0.0.1:5071 SIP/2.0|Via: SIP/2.0/UDP 127.0.0.1:5060;branch=z9hG4bK0123456789abcdef-5|Max-Forwards: 67
|From: "Alice" <sip:alice@home.example>;tag=0123456789abcdef-3|To: <sip:bob@home.example>;tag=b1|Call-ID: 0123456789abcdef-2|CSeq: 2 UPDATE|Contact: <sip:127.0.0.1:5060>
|Content-Length: 0|
at 210 to 1|PRACK sip:bob1@127.0.0.1:5071 SIP/2.0|Via: SIP/2.0/UDP 127.0.0.1:5060;branch=z9hG4bK0123456789abcdef-6|Max-Forwards: 67
|From: "Alice" <sip:alice@home.example>;tag=0123456789abcdef-3|To: <sip:bob@home.example>;tag=b1|Call-ID: 0123456789abcdef-2|CSeq: 3 PRACK|RAck: 900 1 INVITE|Content-Length: 0
|
at 300 to 1|SIP/2.0 481 Call/Transaction Does Not Exist|Via: SIP/2.0/UDP 127.0.0.1:5071;branch=z9hG4bKp1|From: "Alice" <sip:alice@home.example>;tag=t1
|To: <sip:bob@home.example>;tag=0123456789abcdef-1|Call-ID: call1|CSeq: 9 PRACK|Content-Length: 0|
at 300 to 1|SIP/2.0 487 Request Terminated|Via: SIP/2.0/UDP 127.0.0.1:5071;branch=z9hG4bKu1|From: "Alice" <sip:alice@home.example>;tag=t1
|To: <sip:bob@home.example>;tag=0123456789abcdef-1|Call-ID: call1|CSeq: 8 UPDATE|Content-Length: 0|
at 300 to 1|ACK sip:bob@home.example SIP/2.0|Via: SIP/2.0/UDP 127.0.0.1:5060;branch=z9hG4bK0123456789abcdef-4|Max-Forwards: 70
|From: "Alice" <sip:alice@home.example>;tag=0123456789abcdef-3|To: <sip:bob@home.example>;tag=b1|Call-ID: 0123456789abcdef-2|CSeq: 1 ACK|Content-Length: 0|
at 300 to 1|SIP/2.0 603 Decline|Via: SIP/2.0/UDP 127.0.0.1:5071;branch=z9hG4bKc1|From: "Alice" <sip:alice@home.example>;tag=t1
|To: <sip:bob@home.example>;tag=0123456789abcdef-1|Call-ID: call1|CSeq: 7 INVITE|Content-Length: 0|
~ BYE while an UPDATE is in flight.
=further:extension 100rel;
at 0 peer 1|INVITE sip:bob@home.example SIP/2.0|Via: SIP/2.0/UDP 127.0.0.1:5071;branch=z9hG4bKc1|Max-Forwards: 68|From: "Alice" <sip:alice@home.example>;tag=t1
|To: <sip:bob@home.example>|Call-ID: call1|CSeq: 7 INVITE|Contact: <sip:alice@127.0.0.1:5071>|P-Asserted-Identity: <sip:alice@home.example>|Content-Length: 0|
at 100 peer 1|SIP/2.0 180 Ringing|Via: SIP/2.0/UDP 127.0.0.1:5060;branch=z9hG4bK0123456789abcdef-4|From: "Alice" <sip:alice@home.example>;tag=0123456789abcdef-3
|To: <sip:bob@home.example>;tag=b1|Call-ID: 0123456789abcdef-2|CSeq: 1 INVITE|Contact: <sip:bob1@127.0.0.1:5071>|Content-Length: 0|
at 200 peer 1|UPDATE sip:127.0.0.1:5060 SIP/2.0|Via: SIP/2.0/UDP 127.0.0.1:5071;branch=z9hG4bKg1|Max-Forwards: 68|From: <sip:bob@home.example>;tag=b1
|To: "Alice" <sip:alice@home.example>;tag=0123456789abcdef-3|Call-ID: 0123456789abcdef-2|CSeq: 1 UPDATE|Contact: <sip:bob1@127.0.0.1:5071>|Content-Length: 0|
at 300 peer 1|BYE sip:127.0.0.1:5060 SIP/2.0|Via: SIP/2.0/UDP 127.0.0.1:5071;branch=z9hG4bKy1|Max-Forwards: 68|From: "Alice" <sip:alice@home.example>;tag=t1
|To: <sip:bob@home.example>;tag=0123456789abcdef-1|Call-ID: call1|CSeq: 8 BYE|Content-Length: 0|
at 310 peer 1|SIP/2.0 200 OK|Via: SIP/2.0/UDP 127.0.0.1:5060;branch=z9hG4bK0123456789abcdef-5|From: <sip:bob@home.example>;tag=0123456789abcdef-1
|To: "Alice" <sip:alice@home.example>;tag=t1|Call-ID: call1|CSeq: 1 UPDATE|Contact: <sip:alice@127.0.0.1:5071>|Content-Length: 0|
at 310 peer 1|SIP/2.0 200 OK|Via: SIP/2.0/UDP 127.0.0.1:5060;branch=z9hG4bK0123456789abcdef-4|From: "Alice" <sip:alice@home.example>;tag=0123456789abcdef-3
|To: <sip:bob@home.example>;tag=b1|Call-ID: 0123456789abcdef-2|CSeq: 1 CANCEL|Content-Length: 0|
at 320 peer 1|SIP/2.0 487 Request Terminated|Via: SIP/2.0/UDP 127.0.0.1:5060;branch=z9hG4bK0123456789abcdef-4|From: "Alice" <sip:alice@home.example>;tag=0123456789abcdef-3
|To: <sip:bob@home.example>;tag=b1|Call-ID: 0123456789abcdef-2|CSeq: 1 INVITE|Content-Length: 0|
at 330 peer 1|ACK sip:bob@home.example SIP/2.0|Via: SIP/2.0/UDP 127.0.0.1:5071;branch=z9hG4bKc1|Max-Forwards: 68|From: "Alice" <sip:alice@home.example>;tag=t1
|To: <sip:bob@home.example>;tag=0123456789abcdef-1|Call-ID: call1|CSeq: 7 ACK|Content-Length: 0|
at 500 quiet
~ 487 to the UPDATE comes first; its answer comes too late.
at 0 to 1|SIP/2.0 100 Trying|Via: SIP/2.0/UDP 127.0.0.1:5071;branch=z9hG4bKc1|From: "Alice" <sip:alice@home.example>;tag=t1|To: <sip:bob@home.example>|Call-ID: call1
|CSeq: 7 INVITE|Content-Length: 0|
at 0 to 1|INVITE sip:bob@home.example SIP/2.0|Via: SIP/2.0/UDP 127.0.0.1:5060;branch=z9hG4bK0123456789abcdef-4|Max-Forwards: 67
|From: "Alice" <sip:alice@home.example>;tag=0123456789abcdef-3|To: <sip:bob@home.example>|Call-ID: 0123456789abcdef-2|CSeq: 1 INVITE|Contact: <sip:127.0.0.1:5060>
|P-Asserted-Identity: <sip:alice@home.example>|Content-Length: 0|
at 100 to 1|SIP/2.0 180 Ringing|Via: SIP/2.0/UDP 127.0.0.1:5071;branch=z9hG4bKc1|From: "Alice" <sip:alice@home.example>;tag=t1
|To: <sip:bob@home.example>;tag=0123456789abcdef-1|Call-ID: call1|CSeq: 7 INVITE|Contact: <sip:127.0.0.1:5060>|Content-Length: 0|
at 200 to 1|UPDATE sip:alice@127.0.0.1:5071 SIP/2.0|Via: SIP/2.0/UDP 127.0.0.1:5060;branch=z9hG4bK0123456789abcdef-5|Max-Forwards: 67
|From: <sip:bob@home.example>;tag=0123456789abcdef-1|To: "Alice" <sip:alice@home.example>;tag=t1|Call-ID: call1|CSeq: 1 UPDATE|Contact: <sip:127.0.0.1:5060>|Content-Length: 0|
at 300 to 1|SIP/2.0 487 Request Terminated|Via: SIP/2.0/UDP 127.0.0.1:5071;branch=z9hG4bKg1|From: <sip:bob@home.example>;tag=b1
|To: "Alice" <sip:alice@home.example>;tag=0123456789abcdef-3|Call-ID: 0123456789abcdef-2|CSeq: 1 UPDATE|Content-Length: 0|
at 300 to 1|SIP/2.0 200 OK|Via: SIP/2.0/UDP 127.0.0.1:5071;branch=z9hG4bKy1|From: "Alice" <sip:alice@home.example>;tag=t1|To: <sip:bob@home.example>;tag=0123456789abcdef-1
|Call-ID: call1|CSeq: 8 BYE|Content-Length: 0|
at 300 to 1|SIP/2.0 487 Request Terminated|Via: SIP/2.0/UDP 127.0.0.1:5071;branch=z9hG4bKc1|From: "Alice" <sip:alice@home.example>;tag=t1
|To: <sip:bob@home.example>;tag=0123456789abcdef-1|Call-ID: call1|CSeq: 7 INVITE|Content-Length: 0|
at 300 to 1|CANCEL sip:bob@home.example SIP/2.0|Via: SIP/2.0/UDP 127.0.0.1:5060;branch=z9hG4bK0123456789abcdef-4|Max-Forwards: 70
|From: "Alice" <sip:alice@home.example>;tag=0123456789abcdef-3|To: <sip:bob@home.example>|Call-ID: 0123456789abcdef-2|CSeq: 1 CANCEL|Content-Length: 0|
at 320 to 1|ACK sip:bob@home.example SIP/2.0|Via: SIP/2.0/UDP 127.0.0.1:5060;branch=z9hG4bK0123456789abcdef-4|Max-Forwards: 70
|From: "Alice" <sip:alice@home.example>;tag=0123456789abcdef-3|To: <sip:bob@home.example>;tag=b1|Call-ID: 0123456789abcdef-2|CSeq: 1 ACK|Content-Length: 0|
~ An INVITE while an UPDATE is in flight.
=further:extension 100rel;
at 0 peer 1|INVITE sip:bob@home.example SIP/2.0|Via: SIP/2.0/UDP 127.0.0.1:5071;branch=z9hG4bKc1|Max-Forwards: 68|From: "Alice" <sip:alice@home.example>;tag=t1
|To: <sip:bob@home.example>|Call-ID: call1|CSeq: 7 INVITE|Contact: <sip:alice@127.0.0.1:5071>|P-Asserted-Identity: <sip:alice@home.example>|Content-Length: 0|
at 200 peer 1|SIP/2.0 200 OK|Via: SIP/2.0/UDP 127.0.0.1:5060;branch=z9hG4bK0123456789abcdef-4|From: "Alice" <sip:alice@home.example>;tag=0123456789abcdef-3
|To: <sip:bob@home.example>;tag=b1|Call-ID: 0123456789abcdef-2|CSeq: 1 INVITE|Contact: <sip:bob1@127.0.0.1:5071>|Content-Length: 0|
at 300 peer 1|ACK sip:127.0.0.1:5060 SIP/2.0|Via: SIP/2.0/UDP 127.0.0.1:5071;branch=z9hG4bKk1|Max-Forwards: 68|From: "Alice" <sip:alice@home.example>;tag=t1
|To: <sip:bob@home.example>;tag=0123456789abcdef-1|Call-ID: call1|CSeq: 7 ACK|Content-Length: 0|
at 1000 peer 1|UPDATE sip:127.0.0.1:5060 SIP/2.0|Via: SIP/2.0/UDP 127.0.0.1:5071;branch=z9hG4bKu1|Max-Forwards: 68|From: "Alice" <sip:alice@home.example>;tag=t1
|To: <sip:bob@home.example>;tag=0123456789abcdef-1|Call-ID: call1|CSeq: 8 UPDATE|Contact: <sip:alice@127.0.0.1:5071>|Content-Length: 0|
at 1010 peer 1|INVITE sip:127.0.0.1:5060 SIP/2.0|Via: SIP/2.0/UDP 127.0.0.1:5071;branch=z9hG4bKg1|Max-Forwards: 68|From: <sip:bob@home.example>;tag=b1
|To: "Alice" <sip:alice@home.example>;tag=0123456789abcdef-3|Call-ID: 0123456789abcdef-2|CSeq: 1 INVITE|Contact: <sip:bob1@127.0.0.1:5071>|Content-Length: 0|
at 1020 peer 1|UPDATE sip:127.0.0.1:5060 SIP/2.0|Via: SIP/2.0/UDP 127.0.0.1:5071;branch=z9hG4bKg2|Max-Forwards: 68|From: <sip:bob@home.example>;tag=b1
|To: "Alice" <sip:alice@home.example>;tag=0123456789abcdef-3|Call-ID: 0123456789abcdef-2|CSeq: 2 UPDATE|Contact: <sip:bob1@127.0.0.1:5071>|Content-Length: 0|
at 1030 peer 1|UPDATE sip:127.0.0.1:5060 SIP/2.0|Via: SIP/2.0/UDP 127.0.0.1:5071;branch=z9hG4bKu2|Max-Forwards: 68|From: "Alice" <sip:alice@home.example>;tag=t1
|To: <sip:bob@home.example>;tag=0123456789abcdef-1|Call-ID: call1|CSeq: 9 UPDATE|Contact: <sip:alice@127.0.0.1:5071>|Content-Length: 0|
at 1040 peer 1|SIP/2.0 200 OK|Via: SIP/2.0/UDP 127.0.0.1:5060;branch=z9hG4bK0123456789abcdef-6|From: "Alice" <sip:alice@home.example>;tag=0123456789abcdef-3
|To: <sip:bob@home.example>;tag=b1|Call-ID: 0123456789abcdef-2|CSeq: 2 UPDATE|Contact: <sip:bob1@127.0.0.1:5071>|Content-Length: 0|
at 1050 peer 1|SIP/2.0 200 OK|Via: SIP/2.0/UDP 127.0.0.1:5060;branch=z9hG4bK0123456789abcdef-7|From: <sip:bob@home.example>;tag=0123456789abcdef-1
|To: "Alice" <sip:alice@home.example>;tag=t1|Call-ID: call1|CSeq: 1 INVITE|Contact: <sip:alice@127.0.0.1:5071>|Content-Length: 0|
at 1060 peer 1|ACK sip:127.0.0.1:5060 SIP/2.0|Via: SIP/2.0/UDP 127.0.0.1:5071;branch=z9hG4bKg3|Max-Forwards: 68|From: <sip:bob@home.example>;tag=b1
|To: "Alice" <sip:alice@home.example>;tag=0123456789abcdef-3|Call-ID: 0123456789abcdef-2|CSeq: 1 ACK|Content-Length: 0|
at 1070 peer 1|UPDATE sip:127.0.0.1:5060 SIP/2.0|Via: SIP/2.0/UDP 127.0.0.1:5071;branch=z9hG4bKg4|Max-Forwards: 68|From: <sip:bob@home.example>;tag=b1
|To: "Alice" <sip:alice@home.example>;tag=0123456789abcdef-3|Call-ID: 0123456789abcdef-2|CSeq: 3 UPDATE|Contact: <sip:bob1@127.0.0.1:5071>|Content-Length: 0|
at 1080 peer 1|SIP/2.0 200 OK|Via: SIP/2.0/UDP 127.0.0.1:5060;branch=z9hG4bK0123456789abcdef-9|From: <sip:bob@home.example>;tag=0123456789abcdef-1
|To: "Alice" <sip:alice@home.example>;tag=t1|Call-ID: call1|CSeq: 2 UPDATE|Contact: <sip:alice@127.0.0.1:5071>|Content-Length: 0|
at 1200 quiet
~ It is relayed, and the final of the UPDATE comes back all the same.
at 0 to 1|SIP/2.0 100 Trying|Via: SIP/2.0/UDP 127.0.0.1:5071;branch=z9hG4bKc1|From: "Alice" <sip:alice@home.example>;tag=t1|To: <sip:bob@home.example>|Call-ID: call1
|CSeq: 7 INVITE|Content-Length: 0|
at 0 to 1|INVITE sip:bob@home.example SIP/2.0|Via: SIP/2.0/UDP 127.0.0.1:5060;branch=z9hG4bK0123456789abcdef-4|Max-Forwards: 67
|From: "Alice" <sip:alice@home.example>;tag=0123456789abcdef-3|To: <sip:bob@home.example>|Call-ID: 0123456789abcdef-2|CSeq: 1 INVITE|Contact: <sip:127.0.0.1:5060>
|P-Asserted-Identity: <sip:alice@home.example>|Content-Length: 0|
at 200 to 1|SIP/2.0 200 OK|Via: SIP/2.0/UDP 127.0.0.1:5071;branch=z9hG4bKc1|From: "Alice" <sip:alice@home.example>;tag=t1|To: <sip:bob@home.example>;tag=0123456789abcdef-1
|Call-ID: call1|CSeq: 7 INVITE|Contact: <sip:127.0.0.1:5060>|Content-Length: 0|
at 300 to 1|ACK sip:bob1@127.0.0.1:5071 SIP/2.0|Via: SIP/2.0/UDP 127.0.0.1:5060;branch=z9hG4bK0123456789abcdef-5|Max-Forwards: 67
|From: "Alice" <sip:alice@home.example>;tag=0123456789abcdef-3|To: <sip:bob@home.example>;tag=b1|Call-ID: 0123456789abcdef-2|CSeq: 1 ACK|Content-Length: 0|
at 1000 to 1|UPDATE sip:bob1@127.0.0.1:5071 SIP/2.0|Via: SIP/2.0/UDP 127.0.0.1:5060;branch=z9hG4bK0123456789abcdef-6|Max-Forwards: 67
|From: "Alice" <sip:alice@home.example>;tag=0123456789abcdef-3|To: <sip:bob@home.example>;tag=b1|Call-ID: 0123456789abcdef-2|CSeq: 2 UPDATE|Contact: <sip:127.0.0.1:5060>
|Content-Length: 0|
at 1010 to 1|SIP/2.0 100 Trying|Via: SIP/2.0/UDP 127.0.0.1:5071;branch=z9hG4bKg1|From: <sip:bob@home.example>;tag=b1
|To: "Alice" <sip:alice@home.example>;tag=0123456789abcdef-3|Call-ID: 0123456789abcdef-2|CSeq: 1 INVITE|Content-Length: 0|
at 1010 to 1|INVITE sip:alice@127.0.0.1:5071 SIP/2.0|Via: SIP/2.0/UDP 127.0.0.1:5060;branch=z9hG4bK0123456789abcdef-7|Max-Forwards: 67
|From: <sip:bob@home.example>;tag=0123456789abcdef-1|To: "Alice" <sip:alice@home.example>;tag=t1|Call-ID: call1|CSeq: 1 INVITE|Contact: <sip:127.0.0.1:5060>|Content-Length: 0|
at 1020 to 1|SIP/2.0 491 Request Pending|Via: SIP/2.0/UDP 127.0.0.1:5071;branch=z9hG4bKg2|From: <sip:bob@home.example>;tag=b1
|To: "Alice" <sip:alice@home.example>;tag=0123456789abcdef-3|Call-ID: 0123456789abcdef-2|CSeq: 2 UPDATE|Content-Length: 0|
at 1030 to 1|SIP/2.0 491 Request Pending|Via: SIP/2.0/UDP 127.0.0.1:5071;branch=z9hG4bKu2|From: "Alice" <sip:alice@home.example>;tag=t1
|To: <sip:bob@home.example>;tag=0123456789abcdef-1|Call-ID: call1|CSeq: 9 UPDATE|Content-Length: 0|
at 1040 to 1|SIP/2.0 200 OK|Via: SIP/2.0/UDP 127.0.0.1:5071;branch=z9hG4bKu1|From: "Alice" <sip:alice@home.example>;tag=t1|To: <sip:bob@home.example>;tag=0123456789abcdef-1
|Call-ID: call1|CSeq: 8 UPDATE|Contact: <sip:127.0.0.1:5060>|Content-Length: 0|
at 1050 to 1|SIP/2.0 200 OK|Via: SIP/2.0/UDP 127.0.0.1:5071;branch=z9hG4bKg1|From: <sip:bob@home.example>;tag=b1|To: "Alice" <sip:alice@home.example>;tag=0123456789abcdef-3
|Call-ID: 0123456789abcdef-2|CSeq: 1 INVITE|Contact: <sip:127.0.0.1:5060>|Content-Length: 0|
at 1060 to 1|ACK sip:alice@127.0.0.1:5071 SIP/2.0|Via: SIP/2.0/UDP 127.0.0.1:5060;branch=z9hG4bK0123456789abcdef-8|Max-Forwards: 67
|From: <sip:bob@home.example>;tag=0123456789abcdef-1|To: "Alice" <sip:alice@home.example>;tag=t1|Call-ID: call1|CSeq: 1 ACK|Content-Length: 0|
at 1070 to 1|UPDATE sip:alice@127.0.0.1:5071 SIP/2.0|Via: SIP/2.0/UDP 127.0.0.1:5060;branch=z9hG4bK0123456789abcdef-9|Max-Forwards: 67
|From: <sip:bob@home.example>;tag=0123456789abcdef-1|To: "Alice" <sip:alice@home.example>;tag=t1|Call-ID: call1|CSeq: 2 UPDATE|Contact: <sip:127.0.0.1:5060>|Content-Length: 0|
at 1080 to 1|SIP/2.0 200 OK|Via: SIP/2.0/UDP 127.0.0.1:5071;branch=z9hG4bKg4|From: <sip:bob@home.example>;tag=b1|To: "Alice" <sip:alice@home.example>;tag=0123456789abcdef-3
|Call-ID: 0123456789abcdef-2|CSeq: 3 UPDATE|Contact: <sip:127.0.0.1:5060>|Content-Length: 0|
~ 408 and 481 to UPDATEs.
=further:extension 100rel;
at 0 peer 1|INVITE sip:bob@home.example SIP/2.0|Via: SIP/2.0/UDP 127.0.0.1:5071;branch=z9hG4bKc1|Max-Forwards: 68|From: "Alice" <sip:alice@home.example>;tag=t1
|To: <sip:bob@home.example>|Call-ID: call1|CSeq: 7 INVITE|Contact: <sip:alice@127.0.0.1:5071>|P-Asserted-Identity: <sip:alice@home.example>|Content-Length: 0|
at 200 peer 1|SIP/2.0 200 OK|Via: SIP/2.0/UDP 127.0.0.1:5060;branch=z9hG4bK0123456789abcdef-4|From: "Alice" <sip:alice@home.example>;tag=0123456789abcdef-3
|To: <sip:bob@home.example>;tag=b1|Call-ID: 0123456789abcdef-2|CSeq: 1 INVITE|Contact: <sip:bob1@127.0.0.1:5071>|Content-Length: 0|
at 300 peer 1|ACK sip:127.0.0.1:5060 SIP/2.0|Via: SIP/2.0/UDP 127.0.0.1:5071;branch=z9hG4bKk1|Max-Forwards: 68|From: "Alice" <sip:alice@home.example>;tag=t1
|To: <sip:bob@home.example>;tag=0123456789abcdef-1|Call-ID: call1|CSeq: 7 ACK|Content-Length: 0|
at 1000 peer 1|UPDATE sip:127.0.0.1:5060 SIP/2.0|Via: SIP/2.0/UDP 127.0.0.1:5071;branch=z9hG4bKu1|Max-Forwards: 68|From: "Alice" <sip:alice@home.example>;tag=t1
|To: <sip:bob@home.example>;tag=0123456789abcdef-1|Call-ID: call1|CSeq: 8 UPDATE|Contact: <sip:alice@127.0.0.1:5071>|Content-Length: 0|
at 1010 peer 1|SIP/2.0 408 Request Timeout|Via: SIP/2.0/UDP 127.0.0.1:5060;branch=z9hG4bK0123456789abcdef-6|From: "Alice" <sip:alice@home.example>;tag=0123456789abcdef-3
|To: <sip:bob@home.example>;tag=b1|Call-ID: 0123456789abcdef-2|CSeq: 2 UPDATE|Content-Length: 0|
at 1100 peer 1|UPDATE sip:127.0.0.1:5060 SIP/2.0|Via: SIP/2.0/UDP 127.0.0.1:5071;branch=z9hG4bKu2|Max-Forwards: 68|From: "Alice" <sip:alice@home.example>;tag=t1
|To: <sip:bob@home.example>;tag=0123456789abcdef-1|Call-ID: call1|CSeq: 9 UPDATE|Contact: <sip:alice@127.0.0.1:5071>|Content-Length: 0|
at 1110 peer 1|SIP/2.0 481 Gone|Via: SIP/2.0/UDP 127.0.0.1:5060;branch=z9hG4bK0123456789abcdef-7|From: "Alice" <sip:alice@home.example>;tag=0123456789abcdef-3
|To: <sip:bob@home.example>;tag=b1|Call-ID: 0123456789abcdef-2|CSeq: 3 UPDATE|Content-Length: 0|
at 1200 peer 1|BYE sip:127.0.0.1:5060 SIP/2.0|Via: SIP/2.0/UDP 127.0.0.1:5071;branch=z9hG4bKy1|Max-Forwards: 68|From: "Alice" <sip:alice@home.example>;tag=t1
|To: <sip:bob@home.example>;tag=0123456789abcdef-1|Call-ID: call1|CSeq: 10 BYE|Content-Length: 0|
at 1210 peer 1|SIP/2.0 200 OK|Via: SIP/2.0/UDP 127.0.0.1:5060;branch=z9hG4bK0123456789abcdef-8|From: "Alice" <sip:alice@home.example>;tag=0123456789abcdef-3
|To: <sip:bob@home.example>;tag=b1|Call-ID: 0123456789abcdef-2|CSeq: 4 BYE|Content-Length: 0|
~ They come back, and the call stands.
at 0 to 1|SIP/2.0 100 Trying|Via: SIP/2.0/UDP 127.0.0.1:5071;branch=z9hG4bKc1|From: "Alice" <sip:alice@home.example>;tag=t1|To: <sip:bob@home.example>|Call-ID: call1
|CSeq: 7 INVITE|Content-Length: 0|
at 0 to 1|INVITE sip:bob@home.example SIP/2.0|Via: SIP/2.0/UDP 127.0.0.1:5060;branch=z9hG4bK0123456789abcdef-4|Max-Forwards: 67
|From: "Alice" <sip:alice@home.example>;tag=0123456789abcdef-3|To: <sip:bob@home.example>|Call-ID: 0123456789abcdef-2|CSeq: 1 INVITE|Contact: <sip:127.0.0.1:5060>
|P-Asserted-Identity: <sip:alice@home.example>|Content-Length: 0|
at 200 to 1|SIP/2.0 200 OK|Via: SIP/2.0/UDP 127.0.0.1:5071;branch=z9hG4bKc1|From: "Alice" <sip:alice@home.example>;tag=t1|To: <sip:bob@home.example>;tag=0123456789abcdef-1
|Call-ID: call1|CSeq: 7 INVITE|Contact: <sip:127.0.0.1:5060>|Content-Length: 0|
at 300 to 1|ACK sip:bob1@127.0.0.1:5071 SIP/2.0|Via: SIP/2.0/UDP 127.0.0.1:5060;branch=z9hG4bK0123456789abcdef-5|Max-Forwards: 67
|From: "Alice" <sip:alice@home.example>;tag=0123456789abcdef-3|To: <sip:bob@home.example>;tag=b1|Call-ID: 0123456789abcdef-2|CSeq: 1 ACK|Content-Length: 0|
at 1000 to 1|UPDATE sip:bob1@127.0.0.1:5071 SIP/2.0|Via: SIP/2.0/UDP 127.0.0.1:5060;branch=z9hG4bK0123456789abcdef-6|Max-Forwards: 67
|From: "Alice" <sip:alice@home.example>;tag=0123456789abcdef-3|To: <sip:bob@home.example>;tag=b1|Call-ID: 0123456789abcdef-2|CSeq: 2 UPDATE|Contact: <sip:127.0.0.1:5060>
|Content-Length: 0|
at 1010 to 1|SIP/2.0 408 Request Timeout|Via: SIP/2.0/UDP 127.0.0.1:5071;branch=z9hG4bKu1|From: "Alice" <sip:alice@home.example>;tag=t1
|To: <sip:bob@home.example>;tag=0123456789abcdef-1|Call-ID: call1|CSeq: 8 UPDATE|Content-Length: 0|
at 1100 to 1|UPDATE sip:bob1@127.0.0.1:5071 SIP/2.0|Via: SIP/2.0/UDP 127.0.0.1:5060;branch=z9hG4bK0123456789abcdef-7|Max-Forwards: 67
|From: "Alice" <sip:alice@home.example>;tag=0123456789abcdef-3|To: <sip:bob@home.example>;tag=b1|Call-ID: 0123456789abcdef-2|CSeq: 3 UPDATE|Contact: <sip:127.0.0.1:5060>
|Content-Length: 0|
at 1110 to 1|SIP/2.0 481 Gone|Via: SIP/2.0/UDP 127.0.0.1:5071;branch=z9hG4bKu2|From: "Alice" <sip:alice@home.example>;tag=t1|To: <sip:bob@home.example>;tag=0123456789abcdef-1
|Call-ID: call1|CSeq: 9 UPDATE|Content-Length: 0|
at 1200 to 1|SIP/2.0 200 OK|Via: SIP/2.0/UDP 127.0.0.1:5071;branch=z9hG4bKy1|From: "Alice" <sip:alice@home.example>;tag=t1|To: <sip:bob@home.example>;tag=0123456789abcdef-1
|Call-ID: call1|CSeq: 10 BYE|Content-Length: 0|
at 1200 to 1|BYE sip:bob1@127.0.0.1:5071 SIP/2.0|Via: SIP/2.0/UDP 127.0.0.1:5060;branch=z9hG4bK0123456789abcdef-8|Max-Forwards: 67
|From: "Alice" <sip:alice@home.example>;tag=0123456789abcdef-3|To: <sip:bob@home.example>;tag=b1|Call-ID: 0123456789abcdef-2|CSeq: 4 BYE|Content-Length: 0|
~ An INVITE within the call that supports reliable answers.
=further:extension 100rel;
at 0 peer 1|INVITE sip:bob@home.example SIP/2.0|Via: SIP/2.0/UDP 127.0.0.1:5071;branch=z9hG4bKc1|Max-Forwards: 68|From: "Alice" <sip:alice@home.example>;tag=t1
|To: <sip:bob@home.example>|Call-ID: call1|CSeq: 7 INVITE|Contact: <sip:alice@127.0.0.1:5071>|P-Asserted-Identity: <sip:alice@home.example>|Supported: 100rel|Content-Length: 0
|
at 200 peer 1|SIP/2.0 200 OK|Via: SIP/2.0/UDP 127.0.0.1:5060;branch=z9hG4bK0123456789abcdef-4|From: "Alice" <sip:alice@home.example>;tag=0123456789abcdef-3
|To: <sip:bob@home.example>;tag=b1|Call-ID: 0123456789abcdef-2|CSeq: 1 INVITE|Contact: <sip:bob1@127.0.0.1:5071>|Content-Length: 0|
at 300 peer 1|ACK sip:127.0.0.1:5060 SIP/2.0|Via: SIP/2.0/UDP 127.0.0.1:5071;branch=z9hG4bKk1|Max-Forwards: 68|From: "Alice" <sip:alice@home.example>;tag=t1
|To: <sip:bob@home.example>;tag=0123456789abcdef-1|Call-ID: call1|CSeq: 7 ACK|Content-Length: 0|
at 1000 peer 1|INVITE sip:127.0.0.1:5060 SIP/2.0|Via: SIP/2.0/UDP 127.0.0.1:5071;branch=z9hG4bKi2|Max-Forwards: 68|From: "Alice" <sip:alice@home.example>;tag=t1
|To: <sip:bob@home.example>;tag=0123456789abcdef-1|Call-ID: call1|CSeq: 8 INVITE|Contact: <sip:alice@127.0.0.1:5071>|Supported: 100rel, histinfo|Require: 100rel
|Content-Length: 0|
at 1010 peer 1|SIP/2.0 183 Progress|Via: SIP/2.0/UDP 127.0.0.1:5060;branch=z9hG4bK0123456789abcdef-6|From: "Alice" <sip:alice@home.example>;tag=0123456789abcdef-3
|To: <sip:bob@home.example>;tag=b1|Call-ID: 0123456789abcdef-2|CSeq: 2 INVITE|Contact: <sip:bob1@127.0.0.1:5071>|Require: 100rel|RSeq: 1|Content-Length: 0|
at 1020 peer 1|SIP/2.0 200 OK|Via: SIP/2.0/UDP 127.0.0.1:5060;branch=z9hG4bK0123456789abcdef-6|From: "Alice" <sip:alice@home.example>;tag=0123456789abcdef-3
|To: <sip:bob@home.example>;tag=b1|Call-ID: 0123456789abcdef-2|CSeq: 2 INVITE|Contact: <sip:bob1@127.0.0.1:5071>|Content-Length: 0|
at 1030 peer 1|ACK sip:127.0.0.1:5060 SIP/2.0|Via: SIP/2.0/UDP 127.0.0.1:5071;branch=z9hG4bKk2|Max-Forwards: 68|From: "Alice" <sip:alice@home.example>;tag=t1
|To: <sip:bob@home.example>;tag=0123456789abcdef-1|Call-ID: call1|CSeq: 8 ACK|Content-Length: 0|
at 1200 quiet
~ The option is dropped there.
at 0 to 1|SIP/2.0 100 Trying|Via: SIP/2.0/UDP 127.0.0.1:5071;branch=z9hG4bKc1|From: "Alice" <sip:alice@home.example>;tag=t1|To: <sip:bob@home.example>|Call-ID: call1
|CSeq: 7 INVITE|Content-Length: 0|
at 0 to 1|INVITE sip:bob@home.example SIP/2.0|Via: SIP/2.0/UDP 127.0.0.1:5060;branch=z9hG4bK0123456789abcdef-4|Max-Forwards: 67
|From: "Alice" <sip:alice@home.example>;tag=0123456789abcdef-3|To: <sip:bob@home.example>|Call-ID: 0123456789abcdef-2|CSeq: 1 INVITE|Contact: <sip:127.0.0.1:5060>
|P-Asserted-Identity: <sip:alice@home.example>|Supported: 100rel|Content-Length: 0|
at 200 to 1|SIP/2.0 200 OK|Via: SIP/2.0/UDP 127.0.0.1:5071;branch=z9hG4bKc1|From: "Alice" <sip:alice@home.example>;tag=t1|To: <sip:bob@home.example>;tag=0123456789abcdef-1
|Call-ID: call1|CSeq: 7 INVITE|Contact: <sip:127.0.0.1:5060>|Content-Length: 0|
at 300 to 1|ACK sip:bob1@127.0.0.1:5071 SIP/2.0|Via: SIP/2.0/UDP 127.0.0.1:5060;branch=z9hG4bK0123456789abcdef-5|Max-Forwards: 67
|From: "Alice" <sip:alice@home.example>;tag=0123456789abcdef-3|To: <sip:bob@home.example>;tag=b1|Call-ID: 0123456789abcdef-2|CSeq: 1 ACK|Content-Length: 0|
at 1000 to 1|SIP/2.0 100 Trying|Via: SIP/2.0/UDP 127.0.0.1:5071;branch=z9hG4bKi2|From: "Alice" <sip:alice@home.example>;tag=t1
|To: <sip:bob@home.example>;tag=0123456789abcdef-1|Call-ID: call1|CSeq: 8 INVITE|Content-Length: 0|
at 1000 to 1|INVITE sip:bob1@127.0.0.1:5071 SIP/2.0|Via: SIP/2.0/UDP 127.0.0.1:5060;branch=z9hG4bK0123456789abcdef-6|Max-Forwards: 67
|From: "Alice" <sip:alice@home.example>;tag=0123456789abcdef-3|To: <sip:bob@home.example>;tag=b1|Call-ID: 0123456789abcdef-2|CSeq: 2 INVITE|Contact: <sip:127.0.0.1:5060>
|Supported: histinfo|Content-Length: 0|
at 1020 to 1|SIP/2.0 200 OK|Via: SIP/2.0/UDP 127.0.0.1:5071;branch=z9hG4bKi2|From: "Alice" <sip:alice@home.example>;tag=t1|To: <sip:bob@home.example>;tag=0123456789abcdef-1
|Call-ID: call1|CSeq: 8 INVITE|Contact: <sip:127.0.0.1:5060>|Content-Length: 0|
at 1030 to 1|ACK sip:bob1@127.0.0.1:5071 SIP/2.0|Via: SIP/2.0/UDP 127.0.0.1:5060;branch=z9hG4bK0123456789abcdef-7|Max-Forwards: 67
|From: "Alice" <sip:alice@home.example>;tag=0123456789abcdef-3|To: <sip:bob@home.example>;tag=b1|Call-ID: 0123456789abcdef-2|CSeq: 2 ACK|Content-Length: 0|
~ A 2xx of the early dialog after CANCEL, behind a PRACK.
=further:extension 100rel;
at 0 peer 1|INVITE sip:bob@home.example SIP/2.0|Via: SIP/2.0/UDP 127.0.0.1:5071;branch=z9hG4bKc1|Max-Forwards: 68|From: "Alice" <sip:alice@home.example>;tag=t1
|To: <sip:bob@home.example>|Call-ID: call1|CSeq: 7 INVITE|Contact: <sip:alice@127.0.0.1:5071>|P-Asserted-Identity: <sip:alice@home.example>|Supported: 100rel|Content-Length: 0
|
at 100 peer 1|SIP/2.0 183 Progress|Via: SIP/2.0/UDP 127.0.0.1:5060;branch=z9hG4bK0123456789abcdef-4|From: "Alice" <sip:alice@home.example>;tag=0123456789abcdef-3
|To: <sip:bob@home.example>;tag=b1|Call-ID: 0123456789abcdef-2|CSeq: 1 INVITE|Contact: <sip:bob1@127.0.0.1:5071>|Require: 100rel|RSeq: 900|Content-Length: 0|
at 200 peer 1|PRACK sip:127.0.0.1:5060 SIP/2.0|Via: SIP/2.0/UDP 127.0.0.1:5071;branch=z9hG4bKp1|Max-Forwards: 68|From: "Alice" <sip:alice@home.example>;tag=t1
|To: <sip:bob@home.example>;tag=0123456789abcdef-1|Call-ID: call1|CSeq: 8 PRACK|RAck: 1 7 INVITE|Content-Length: 0|
at 210 peer 1|SIP/2.0 200 OK|Via: SIP/2.0/UDP 127.0.0.1:5060;branch=z9hG4bK0123456789abcdef-5|From: "Alice" <sip:alice@home.example>;tag=0123456789abcdef-3
|To: <sip:bob@home.example>;tag=b1|Call-ID: 0123456789abcdef-2|CSeq: 2 PRACK|Content-Length: 0|
at 300 peer 1|SIP/2.0 200 OK|Via: SIP/2.0/UDP 127.0.0.1:5060;branch=z9hG4bK0123456789abcdef-4|From: "Alice" <sip:alice@home.example>;tag=0123456789abcdef-3
|To: <sip:bob@home.example>;tag=b2|Call-ID: 0123456789abcdef-2|CSeq: 1 INVITE|Contact: <sip:bob2@127.0.0.1:5071>|Content-Length: 0|
at 310 peer 1|ACK sip:127.0.0.1:5060 SIP/2.0|Via: SIP/2.0/UDP 127.0.0.1:5071;branch=z9hG4bKk1|Max-Forwards: 68|From: "Alice" <sip:alice@home.example>;tag=t1
|To: <sip:bob@home.example>;tag=0123456789abcdef-1|Call-ID: call1|CSeq: 7 ACK|Content-Length: 0|
at 400 peer 1|SIP/2.0 200 OK|Via: SIP/2.0/UDP 127.0.0.1:5060;branch=z9hG4bK0123456789abcdef-4|From: "Alice" <sip:alice@home.example>;tag=0123456789abcdef-3
|To: <sip:bob@home.example>;tag=b1|Call-ID: 0123456789abcdef-2|CSeq: 1 INVITE|Contact: <sip:bob1@127.0.0.1:5071>|Content-Length: 0|
at 410 peer 1|SIP/2.0 200 OK|Via: SIP/2.0/UDP 127.0.0.1:5060;branch=z9hG4bK0123456789abcdef-8|From: "Alice" <sip:alice@home.example>;tag=0123456789abcdef-3
|To: <sip:bob@home.example>;tag=b1|Call-ID: 0123456789abcdef-2|CSeq: 3 BYE|Content-Length: 0|
at 500 quiet
~ Its BYE goes on from the number of the PRACK.
at 0 to 1|SIP/2.0 100 Trying|Via: SIP/2.0/UDP 127.0.0.1:5071;branch=z9hG4bKc1|From: "Alice" <sip:alice@home.example>;tag=t1|To: <sip:bob@home.example>|Call-ID: call1
|CSeq: 7 INVITE|Content-Length: 0|
at 0 to 1|INVITE sip:bob@home.example SIP/2.0|Via: SIP/2.0/UDP 127.0.0.1:5060;branch=z9hG4bK0123456789abcdef-4|Max-Forwards: 67
|From: "Alice" <sip:alice@home.example>;tag=0123456789abcdef-3|To: <sip:bob@home.example>|Call-ID: 0123456789abcdef-2|CSeq: 1 INVITE|Contact: <sip:127.0.0.1:5060>
|P-Asserted-Identity: <sip:alice@home.example>|Supported: 100rel|Content-Length: 0|
at 100 to 1|SIP/2.0 183 Progress|Via: SIP/2.0/UDP 127.0.0.1:5071;branch=z9hG4bKc1|From: "Alice" <sip:alice@home.example>;tag=t1
|To: <sip:bob@home.example>;tag=0123456789abcdef-1|Call-ID: call1|CSeq: 7 INVITE|Contact: <sip:127.0.0.1:5060>|Require: 100rel|RSeq: 1|Content-Length: 0|
at 200 to 1|PRACK sip:bob1@127.0.0.1:5071 SIP/2.0|Via: SIP/2.0/UDP 127.0.0.1:5060;branch=z9hG4bK0123456789abcdef-5|Max-Forwards: 67
|From: "Alice" <sip:alice@home.example>;tag=0123456789abcdef-3|To: <sip:bob@home.example>;tag=b1|Call-ID: 0123456789abcdef-2|CSeq: 2 PRACK|RAck: 900 1 INVITE|Content-Length: 0
|
at 210 to 1|SIP/2.0 200 OK|Via: SIP/2.0/UDP 127.0.0.1:5071;branch=z9hG4bKp1|From: "Alice" <sip:alice@home.example>;tag=t1|To: <sip:bob@home.example>;tag=0123456789abcdef-1
|Call-ID: call1|CSeq: 8 PRACK|Content-Length: 0|
at 300 to 1|SIP/2.0 200 OK|Via: SIP/2.0/UDP 127.0.0.1:5071;branch=z9hG4bKc1|From: "Alice" <sip:alice@home.example>;tag=t1|To: <sip:bob@home.example>;tag=0123456789abcdef-1
|Call-ID: call1|CSeq: 7 INVITE|Contact: <sip:127.0.0.1:5060>|Content-Length: 0|
at 310 to 1|ACK sip:bob2@127.0.0.1:5071 SIP/2.0|Via: SIP/2.0/UDP 127.0.0.1:5060;branch=z9hG4bK0123456789abcdef-6|Max-Forwards: 67
|From: "Alice" <sip:alice@home.example>;tag=0123456789abcdef-3|To: <sip:bob@home.example>;tag=b2|Call-ID: 0123456789abcdef-2|CSeq: 1 ACK|Content-Length: 0|
at 400 to 1|ACK sip:bob1@127.0.0.1:5071 SIP/2.0|Via: SIP/2.0/UDP 127.0.0.1:5060;branch=z9hG4bK0123456789abcdef-7|Max-Forwards: 70
|From: "Alice" <sip:alice@home.example>;tag=0123456789abcdef-3|To: <sip:bob@home.example>;tag=b1|Call-ID: 0123456789abcdef-2|CSeq: 1 ACK|Content-Length: 0|
at 400 to 1|BYE sip:bob1@127.0.0.1:5071 SIP/2.0|Via: SIP/2.0/UDP 127.0.0.1:5060;branch=z9hG4bK0123456789abcdef-8|Max-Forwards: 70
|From: "Alice" <sip:alice@home.example>;tag=0123456789abcdef-3|To: <sip:bob@home.example>;tag=b1|Call-ID: 0123456789abcdef-2|CSeq: 3 BYE|Content-Length: 0|
~ The same, and a 2xx of another dialog.
=further:extension 100rel;
at 0 peer 1|INVITE sip:bob@home.example SIP/2.0|Via: SIP/2.0/UDP 127.0.0.1:5071;branch=z9hG4bKc1|Max-Forwards: 68|From: "Alice" <sip:alice@home.example>;tag=t1
|To: <sip:bob@home.example>|Call-ID: call1|CSeq: 7 INVITE|Contact: <sip:alice@127.0.0.1:5071>|P-Asserted-Identity: <sip:alice@home.example>|Supported: 100rel|Content-Length: 0
|
at 100 peer 1|SIP/2.0 183 Progress|Via: SIP/2.0/UDP 127.0.0.1:5060;branch=z9hG4bK0123456789abcdef-4|From: "Alice" <sip:alice@home.example>;tag=0123456789abcdef-3
|To: <sip:bob@home.example>;tag=b1|Call-ID: 0123456789abcdef-2|CSeq: 1 INVITE|Contact: <sip:bob1@127.0.0.1:5071>|Require: 100rel|RSeq: 900|Content-Length: 0|
at 200 peer 1|PRACK sip:127.0.0.1:5060 SIP/2.0|Via: SIP/2.0/UDP 127.0.0.1:5071;branch=z9hG4bKp1|Max-Forwards: 68|From: "Alice" <sip:alice@home.example>;tag=t1
|To: <sip:bob@home.example>;tag=0123456789abcdef-1|Call-ID: call1|CSeq: 8 PRACK|RAck: 1 7 INVITE|Content-Length: 0|
at 210 peer 1|SIP/2.0 200 OK|Via: SIP/2.0/UDP 127.0.0.1:5060;branch=z9hG4bK0123456789abcdef-5|From: "Alice" <sip:alice@home.example>;tag=0123456789abcdef-3
|To: <sip:bob@home.example>;tag=b1|Call-ID: 0123456789abcdef-2|CSeq: 2 PRACK|Content-Length: 0|
at 300 peer 1|CANCEL sip:bob@home.example SIP/2.0|Via: SIP/2.0/UDP 127.0.0.1:5071;branch=z9hG4bKc1|Max-Forwards: 68|From: "Alice" <sip:alice@home.example>;tag=t1
|To: <sip:bob@home.example>|Call-ID: call1|CSeq: 7 CANCEL|Content-Length: 0|
at 310 peer 1|SIP/2.0 200 OK|Via: SIP/2.0/UDP 127.0.0.1:5060;branch=z9hG4bK0123456789abcdef-4|From: "Alice" <sip:alice@home.example>;tag=0123456789abcdef-3
|To: <sip:bob@home.example>;tag=b1|Call-ID: 0123456789abcdef-2|CSeq: 1 CANCEL|Content-Length: 0|
at 310 peer 1|ACK sip:bob@home.example SIP/2.0|Via: SIP/2.0/UDP 127.0.0.1:5071;branch=z9hG4bKc1|Max-Forwards: 68|From: "Alice" <sip:alice@home.example>;tag=t1
|To: <sip:bob@home.example>;tag=0123456789abcdef-1|Call-ID: call1|CSeq: 7 ACK|Content-Length: 0|
at 400 peer 1|SIP/2.0 200 OK|Via: SIP/2.0/UDP 127.0.0.1:5060;branch=z9hG4bK0123456789abcdef-4|From: "Alice" <sip:alice@home.example>;tag=0123456789abcdef-3
|To: <sip:bob@home.example>;tag=b2|Call-ID: 0123456789abcdef-2|CSeq: 1 INVITE|Contact: <sip:bob2@127.0.0.1:5071>|Content-Length: 0|
at 410 peer 1|SIP/2.0 200 OK|Via: SIP/2.0/UDP 127.0.0.1:5060;branch=z9hG4bK0123456789abcdef-7|From: "Alice" <sip:alice@home.example>;tag=0123456789abcdef-3
|To: <sip:bob@home.example>;tag=b2|Call-ID: 0123456789abcdef-2|CSeq: 2 BYE|Content-Length: 0|
at 420 peer 1|SIP/2.0 200 OK|Via: SIP/2.0/UDP 127.0.0.1:5060;branch=z9hG4bK0123456789abcdef-4|From: "Alice" <sip:alice@home.example>;tag=0123456789abcdef-3
|To: <sip:bob@home.example>;tag=b1|Call-ID: 0123456789abcdef-2|CSeq: 1 INVITE|Contact: <sip:bob1@127.0.0.1:5071>|Content-Length: 0|
at 430 peer 1|SIP/2.0 200 OK|Via: SIP/2.0/UDP 127.0.0.1:5060;branch=z9hG4bK0123456789abcdef-9|From: "Alice" <sip:alice@home.example>;tag=0123456789abcdef-3
|To: <sip:bob@home.example>;tag=b1|Call-ID: 0123456789abcdef-2|CSeq: 3 BYE|Content-Length: 0|
at 500 quiet
~ The BYE of the other dialog has number 2.
at 0 to 1|SIP/2.0 100 Trying|Via: SIP/2.0/UDP 127.0.0.1:5071;branch=z9hG4bKc1|From: "Alice" <sip:alice@home.example>;tag=t1|To: <sip:bob@home.example>|Call-ID: call1
|CSeq: 7 INVITE|Content-Length: 0|
at 0 to 1|INVITE sip:bob@home.example SIP/2.0|Via: SIP/2.0/UDP 127.0.0.1:5060;branch=z9hG4bK0123456789abcdef-4|Max-Forwards: 67
|From: "Alice" <sip:alice@home.example>;tag=0123456789abcdef-3|To: <sip:bob@home.example>|Call-ID: 0123456789abcdef-2|CSeq: 1 INVITE|Contact: <sip:127.0.0.1:5060>
|P-Asserted-Identity: <sip:alice@home.example>|Supported: 100rel|Content-Length: 0|
at 100 to 1|SIP/2.0 183 Progress|Via: SIP/2.0/UDP 127.0.0.1:5071;branch=z9hG4bKc1|From: "Alice" <sip:alice@home.example>;tag=t1
|To: <sip:bob@home.example>;tag=0123456789abcdef-1|Call-ID: call1|CSeq: 7 INVITE|Contact: <sip:127.0.0.1:5060>|Require: 100rel|RSeq: 1|Content-Length: 0|
at 200 to 1|PRACK sip:bob1@127.0.0.1:5071 SIP/2.0|Via: SIP/2.0/UDP 127.0.0.1:5060;branch=z9hG4bK0123456789abcdef-5|Max-Forwards: 67
|From: "Alice" <sip:alice@home.example>;tag=0123456789abcdef-3|To: <sip:bob@home.example>;tag=b1|Call-ID: 0123456789abcdef-2|CSeq: 2 PRACK|RAck: 900 1 INVITE|Content-Length: 0
|
at 210 to 1|SIP/2.0 200 OK|Via: SIP/2.0/UDP 127.0.0.1:5071;branch=z9hG4bKp1|From: "Alice" <sip:alice@home.example>;tag=t1|To: <sip:bob@home.example>;tag=0123456789abcdef-1
|Call-ID: call1|CSeq: 8 PRACK|Content-Length: 0|
at 300 to 1|SIP/2.0 200 OK|Via: SIP/2.0/UDP 127.0.0.1:5071;branch=z9hG4bKc1|From: "Alice" <sip:alice@home.example>;tag=t1|To: <sip:bob@home.example>;tag=0123456789abcdef-1
|Call-ID: call1|CSeq: 7 CANCEL|Content-Length: 0|
at 300 to 1|SIP/2.0 487 Request Terminated|Via: SIP/2.0/UDP 127.0.0.1:5071;branch=z9hG4bKc1|From: "Alice" <sip:alice@home.example>;tag=t1
|To: <sip:bob@home.example>;tag=0123456789abcdef-1|Call-ID: call1|CSeq: 7 INVITE|Content-Length: 0|
at 300 to 1|CANCEL sip:bob@home.example SIP/2.0|Via: SIP/2.0/UDP 127.0.0.1:5060;branch=z9hG4bK0123456789abcdef-4|Max-Forwards: 70
|From: "Alice" <sip:alice@home.example>;tag=0123456789abcdef-3|To: <sip:bob@home.example>|Call-ID: 0123456789abcdef-2|CSeq: 1 CANCEL|Content-Length: 0|
at 400 to 1|ACK sip:bob2@127.0.0.1:5071 SIP/2.0|Via: SIP/2.0/UDP 127.0.0.1:5060;branch=z9hG4bK0123456789abcdef-6|Max-Forwards: 70
|From: "Alice" <sip:alice@home.example>;tag=0123456789abcdef-3|To: <sip:bob@home.example>;tag=b2|Call-ID: 0123456789abcdef-2|CSeq: 1 ACK|Content-Length: 0|
at 400 to 1|BYE sip:bob2@127.0.0.1:5071 SIP/2.0|Via: SIP/2.0/UDP 127.0.0.1:5060;branch=z9hG4bK0123456789abcdef-7|Max-Forwards: 70
|From: "Alice" <sip:alice@home.example>;tag=0123456789abcdef-3|To: <sip:bob@home.example>;tag=b2|Call-ID: 0123456789abcdef-2|CSeq: 2 BYE|Content-Length: 0|
at 420 to 1|ACK sip:bob1@127.0.0.1:5071 SIP/2.0|Via: SIP/2.0/UDP 127.0.0.1:5060;branch=z9hG4bK0123456789abcdef-8|Max-Forwards: 70
|From: "Alice" <sip:alice@home.example>;tag=0123456789abcdef-3|To: <sip:bob@home.example>;tag=b1|Call-ID: 0123456789abcdef-2|CSeq: 1 ACK|Content-Length: 0|
at 420 to 1|BYE sip:bob1@127.0.0.1:5071 SIP/2.0|Via: SIP/2.0/UDP 127.0.0.1:5060;branch=z9hG4bK0123456789abcdef-9|Max-Forwards: 70
|From: "Alice" <sip:alice@home.example>;tag=0123456789abcdef-3|To: <sip:bob@home.example>;tag=b1|Call-ID: 0123456789abcdef-2|CSeq: 3 BYE|Content-Length: 0|
~ The call is diverted while a PRACK is in flight.
=further:extension 100rel;
at 0 web|PUT /simservs/2 HTTP/1.1|X-3GPP-Asserted-Identity: "sip:bob@home.example"|Content-Type: application/toml|Content-Length: 101|
x5b636f6d6d756e69636174696f6e2d646976657273696f6e5d0a5b5b636f6d6d756e69636174696f6e2d646976657273696f6e2e72756c655d5d0a62757379203d20747275650a746172676574203d\
20227369703a766d406661722e6578616d706c65220a
at 0 peer 1|INVITE sip:bob@home.example SIP/2.0|Via: SIP/2.0/UDP 127.0.0.1:5071;branch=z9hG4bKc1|Max-Forwards: 68|From: "Alice" <sip:alice@home.example>;tag=t1
|To: <sip:bob@home.example>|Call-ID: call1|CSeq: 7 INVITE|Contact: <sip:alice@127.0.0.1:5071>|P-Asserted-Identity: <sip:alice@home.example>|Supported: 100rel|Content-Length: 0
|
at 100 peer 1|SIP/2.0 183 Progress|Via: SIP/2.0/UDP 127.0.0.1:5060;branch=z9hG4bK0123456789abcdef-4|From: "Alice" <sip:alice@home.example>;tag=0123456789abcdef-3
|To: <sip:bob@home.example>;tag=b1|Call-ID: 0123456789abcdef-2|CSeq: 1 INVITE|Contact: <sip:bob1@127.0.0.1:5071>|Require: 100rel|RSeq: 900|Content-Length: 0|
at 200 peer 1|PRACK sip:127.0.0.1:5060 SIP/2.0|Via: SIP/2.0/UDP 127.0.0.1:5071;branch=z9hG4bKp1|Max-Forwards: 68|From: "Alice" <sip:alice@home.example>;tag=t1
|To: <sip:bob@home.example>;tag=0123456789abcdef-1|Call-ID: call1|CSeq: 8 PRACK|RAck: 1 7 INVITE|Content-Length: 0|
at 220 peer 1|SIP/2.0 183 Progress|Via: SIP/2.0/UDP 127.0.0.1:5060;branch=z9hG4bK0123456789abcdef-4|From: "Alice" <sip:alice@home.example>;tag=0123456789abcdef-3
|To: <sip:bob@home.example>;tag=b1|Call-ID: 0123456789abcdef-2|CSeq: 1 INVITE|Contact: <sip:bob1@127.0.0.1:5071>|Require: 100rel|RSeq: 901|Content-Length: 0|
at 300 peer 1|SIP/2.0 486 Busy|Via: SIP/2.0/UDP 127.0.0.1:5060;branch=z9hG4bK0123456789abcdef-4|From: "Alice" <sip:alice@home.example>;tag=0123456789abcdef-3
|To: <sip:bob@home.example>;tag=b1|Call-ID: 0123456789abcdef-2|CSeq: 1 INVITE|Content-Length: 0|
at 310 peer 1|SIP/2.0 200 OK|Via: SIP/2.0/UDP 127.0.0.1:5060;branch=z9hG4bK0123456789abcdef-5|From: "Alice" <sip:alice@home.example>;tag=0123456789abcdef-3
|To: <sip:bob@home.example>;tag=b1|Call-ID: 0123456789abcdef-2|CSeq: 2 PRACK|Content-Length: 0|
at 320 peer 1|PRACK sip:127.0.0.1:5060 SIP/2.0|Via: SIP/2.0/UDP 127.0.0.1:5071;branch=z9hG4bKp2|Max-Forwards: 68|From: "Alice" <sip:alice@home.example>;tag=t1
|To: <sip:bob@home.example>;tag=0123456789abcdef-1|Call-ID: call1|CSeq: 9 PRACK|RAck: 2 7 INVITE|Content-Length: 0|
at 400 peer 2|SIP/2.0 183 Again|Via: SIP/2.0/UDP 127.0.0.1:5060;branch=z9hG4bK0123456789abcdef-8|From: "Alice" <sip:alice@home.example>;tag=0123456789abcdef-7
|To: <sip:vm@far.example>;tag=v1|Call-ID: 0123456789abcdef-6|CSeq: 1 INVITE|Contact: <sip:vm@127.0.0.1:5072>|Require: 100rel|RSeq: 5|Content-Length: 0|
at 450 peer 1|PRACK sip:127.0.0.1:5060 SIP/2.0|Via: SIP/2.0/UDP 127.0.0.1:5071;branch=z9hG4bKp3|Max-Forwards: 68|From: "Alice" <sip:alice@home.example>;tag=t1
|To: <sip:bob@home.example>;tag=0123456789abcdef-1|Call-ID: call1|CSeq: 10 PRACK|RAck: 3 7 INVITE|Content-Length: 0|
~ 481 to the PRACK first; the numbers go on in the next attempt.
at 0 web|HTTP/1.1 200 OK|Content-Length: 0|Connection: close|
at 0 to 1|SIP/2.0 100 Trying|Via: SIP/2.0/UDP 127.0.0.1:5071;branch=z9hG4bKc1|From: "Alice" <sip:alice@home.example>;tag=t1|To: <sip:bob@home.example>|Call-ID: call1
|CSeq: 7 INVITE|Content-Length: 0|
at 0 to 1|INVITE sip:bob@home.example SIP/2.0|Via: SIP/2.0/UDP 127.0.0.1:5060;branch=z9hG4bK0123456789abcdef-4|Max-Forwards: 67
|From: "Alice" <sip:alice@home.example>;tag=0123456789abcdef-3|To: <sip:bob@home.example>|Call-ID: 0123456789abcdef-2|CSeq: 1 INVITE|Contact: <sip:127.0.0.1:5060>
|P-Asserted-Identity: <sip:alice@home.example>|Supported: 100rel|Content-Length: 0|
at 100 to 1|SIP/2.0 183 Progress|Via: SIP/2.0/UDP 127.0.0.1:5071;branch=z9hG4bKc1|From: "Alice" <sip:alice@home.example>;tag=t1
|To: <sip:bob@home.example>;tag=0123456789abcdef-1|Call-ID: call1|CSeq: 7 INVITE|Contact: <sip:127.0.0.1:5060>|Require: 100rel|RSeq: 1|Content-Length: 0|
at 200 to 1|PRACK sip:bob1@127.0.0.1:5071 SIP/2.0|Via: SIP/2.0/UDP 127.0.0.1:5060;branch=z9hG4bK0123456789abcdef-5|Max-Forwards: 67
|From: "Alice" <sip:alice@home.example>;tag=0123456789abcdef-3|To: <sip:bob@home.example>;tag=b1|Call-ID: 0123456789abcdef-2|CSeq: 2 PRACK|RAck: 900 1 INVITE|Content-Length: 0
|
at 220 to 1|SIP/2.0 183 Progress|Via: SIP/2.0/UDP 127.0.0.1:5071;branch=z9hG4bKc1|From: "Alice" <sip:alice@home.example>;tag=t1
|To: <sip:bob@home.example>;tag=0123456789abcdef-1|Call-ID: call1|CSeq: 7 INVITE|Contact: <sip:127.0.0.1:5060>|Require: 100rel|RSeq: 2|Content-Length: 0|
at 300 to 1|SIP/2.0 481 Call/Transaction Does Not Exist|Via: SIP/2.0/UDP 127.0.0.1:5071;branch=z9hG4bKp1|From: "Alice" <sip:alice@home.example>;tag=t1
|To: <sip:bob@home.example>;tag=0123456789abcdef-1|Call-ID: call1|CSeq: 8 PRACK|Content-Length: 0|
at 300 to 1|ACK sip:bob@home.example SIP/2.0|Via: SIP/2.0/UDP 127.0.0.1:5060;branch=z9hG4bK0123456789abcdef-4|Max-Forwards: 70
|From: "Alice" <sip:alice@home.example>;tag=0123456789abcdef-3|To: <sip:bob@home.example>;tag=b1|Call-ID: 0123456789abcdef-2|CSeq: 1 ACK|Content-Length: 0|
at 300 to 1|SIP/2.0 181 Call Is Being Forwarded|Via: SIP/2.0/UDP 127.0.0.1:5071;branch=z9hG4bKc1|From: "Alice" <sip:alice@home.example>;tag=t1
|To: <sip:bob@home.example>;tag=0123456789abcdef-1|Call-ID: call1|CSeq: 7 INVITE|Contact: <sip:127.0.0.1:5060>|History-Info: <sip:bob@home.example>;index=1
|History-Info: <sip:vm@far.example;cause=486>;index=1.1|Content-Length: 0|
at 300 to 2|INVITE sip:vm@far.example;cause=486 SIP/2.0|Via: SIP/2.0/UDP 127.0.0.1:5060;branch=z9hG4bK0123456789abcdef-8|Max-Forwards: 67
|From: "Alice" <sip:alice@home.example>;tag=0123456789abcdef-7|To: <sip:vm@far.example>|Call-ID: 0123456789abcdef-6|CSeq: 1 INVITE|Contact: <sip:127.0.0.1:5060>
|P-Asserted-Identity: <sip:alice@home.example>|History-Info: <sip:bob@home.example>;index=1|History-Info: <sip:vm@far.example;cause=486>;index=1.1|Supported: 100rel
|Content-Length: 0|
at 320 to 1|SIP/2.0 481 Call/Transaction Does Not Exist|Via: SIP/2.0/UDP 127.0.0.1:5071;branch=z9hG4bKp2|From: "Alice" <sip:alice@home.example>;tag=t1
|To: <sip:bob@home.example>;tag=0123456789abcdef-1|Call-ID: call1|CSeq: 9 PRACK|Content-Length: 0|
at 400 to 1|SIP/2.0 183 Again|Via: SIP/2.0/UDP 127.0.0.1:5071;branch=z9hG4bKc1|From: "Alice" <sip:alice@home.example>;tag=t1|To: <sip:bob@home.example>;tag=0123456789abcdef-1
|Call-ID: call1|CSeq: 7 INVITE|Contact: <sip:127.0.0.1:5060>|Require: 100rel|RSeq: 3|Content-Length: 0|
at 450 to 2|PRACK sip:vm@127.0.0.1:5072 SIP/2.0|Via: SIP/2.0/UDP 127.0.0.1:5060;branch=z9hG4bK0123456789abcdef-9|Max-Forwards: 67
|From: "Alice" <sip:alice@home.example>;tag=0123456789abcdef-7|To: <sip:vm@far.example>;tag=v1|Call-ID: 0123456789abcdef-6|CSeq: 2 PRACK|RAck: 5 1 INVITE|Content-Length: 0|
~ The no-reply time and that of a PRACK end in one step.
=further:extension 100rel;
at 0 web|PUT /simservs/2 HTTP/1.1|X-3GPP-Asserted-Identity: "sip:bob@home.example"|Content-Type: application/toml|Content-Length: 124|
x5b636f6d6d756e69636174696f6e2d646976657273696f6e5d0a6e6f2d7265706c792d74696d65203d20350a5b5b636f6d6d756e69636174696f6e2d646976657273696f6e2e72756c655d5d0a6e6f\
2d616e73776572203d20747275650a746172676574203d20227369703a766d406661722e6578616d706c65220a
at 0 peer 1|INVITE sip:bob@home.example SIP/2.0|Via: SIP/2.0/UDP 127.0.0.1:5071;branch=z9hG4bKc1|Max-Forwards: 68|From: "Alice" <sip:alice@home.example>;tag=t1
|To: <sip:bob@home.example>|Call-ID: call1|CSeq: 7 INVITE|Contact: <sip:alice@127.0.0.1:5071>|P-Asserted-Identity: <sip:alice@home.example>|Supported: 100rel|Content-Length: 0
|
at 100 peer 1|SIP/2.0 183 Progress|Via: SIP/2.0/UDP 127.0.0.1:5060;branch=z9hG4bK0123456789abcdef-4|From: "Alice" <sip:alice@home.example>;tag=0123456789abcdef-3
|To: <sip:bob@home.example>;tag=b1|Call-ID: 0123456789abcdef-2|CSeq: 1 INVITE|Contact: <sip:bob1@127.0.0.1:5071>|Require: 100rel|RSeq: 900|Content-Length: 0|
at 5000 peer 1|PRACK sip:127.0.0.1:5060 SIP/2.0|Via: SIP/2.0/UDP 127.0.0.1:5071;branch=z9hG4bKp1|Max-Forwards: 68|From: "Alice" <sip:alice@home.example>;tag=t1
|To: <sip:bob@home.example>;tag=0123456789abcdef-1|Call-ID: call1|CSeq: 8 PRACK|RAck: 1 7 INVITE|Content-Length: 0|
at 5200 quiet
~ The no-reply time comes first: the call is diverted.
at 0 web|HTTP/1.1 200 OK|Content-Length: 0|Connection: close|
at 0 to 1|SIP/2.0 100 Trying|Via: SIP/2.0/UDP 127.0.0.1:5071;branch=z9hG4bKc1|From: "Alice" <sip:alice@home.example>;tag=t1|To: <sip:bob@home.example>|Call-ID: call1
|CSeq: 7 INVITE|Content-Length: 0|
at 0 to 1|INVITE sip:bob@home.example SIP/2.0|Via: SIP/2.0/UDP 127.0.0.1:5060;branch=z9hG4bK0123456789abcdef-4|Max-Forwards: 67
|From: "Alice" <sip:alice@home.example>;tag=0123456789abcdef-3|To: <sip:bob@home.example>|Call-ID: 0123456789abcdef-2|CSeq: 1 INVITE|Contact: <sip:127.0.0.1:5060>
|P-Asserted-Identity: <sip:alice@home.example>|Supported: 100rel|Content-Length: 0|
at 100 to 1|SIP/2.0 183 Progress|Via: SIP/2.0/UDP 127.0.0.1:5071;branch=z9hG4bKc1|From: "Alice" <sip:alice@home.example>;tag=t1
|To: <sip:bob@home.example>;tag=0123456789abcdef-1|Call-ID: call1|CSeq: 7 INVITE|Contact: <sip:127.0.0.1:5060>|Require: 100rel|RSeq: 1|Content-Length: 0|
at 600 to 1|SIP/2.0 183 Progress|Via: SIP/2.0/UDP 127.0.0.1:5071;branch=z9hG4bKc1|From: "Alice" <sip:alice@home.example>;tag=t1
|To: <sip:bob@home.example>;tag=0123456789abcdef-1|Call-ID: call1|CSeq: 7 INVITE|Contact: <sip:127.0.0.1:5060>|Require: 100rel|RSeq: 1|Content-Length: 0|
at 1600 to 1|SIP/2.0 183 Progress|Via: SIP/2.0/UDP 127.0.0.1:5071;branch=z9hG4bKc1|From: "Alice" <sip:alice@home.example>;tag=t1
|To: <sip:bob@home.example>;tag=0123456789abcdef-1|Call-ID: call1|CSeq: 7 INVITE|Contact: <sip:127.0.0.1:5060>|Require: 100rel|RSeq: 1|Content-Length: 0|
at 3600 to 1|SIP/2.0 183 Progress|Via: SIP/2.0/UDP 127.0.0.1:5071;branch=z9hG4bKc1|From: "Alice" <sip:alice@home.example>;tag=t1
|To: <sip:bob@home.example>;tag=0123456789abcdef-1|Call-ID: call1|CSeq: 7 INVITE|Contact: <sip:127.0.0.1:5060>|Require: 100rel|RSeq: 1|Content-Length: 0|
at 5000 to 1|PRACK sip:bob1@127.0.0.1:5071 SIP/2.0|Via: SIP/2.0/UDP 127.0.0.1:5060;branch=z9hG4bK0123456789abcdef-5|Max-Forwards: 67
|From: "Alice" <sip:alice@home.example>;tag=0123456789abcdef-3|To: <sip:bob@home.example>;tag=b1|Call-ID: 0123456789abcdef-2|CSeq: 2 PRACK|RAck: 900 1 INVITE|Content-Length: 0
|
at 5100 to 1|SIP/2.0 481 Call/Transaction Does Not Exist|Via: SIP/2.0/UDP 127.0.0.1:5071;branch=z9hG4bKp1|From: "Alice" <sip:alice@home.example>;tag=t1
|To: <sip:bob@home.example>;tag=0123456789abcdef-1|Call-ID: call1|CSeq: 8 PRACK|Content-Length: 0|
at 5100 to 1|CANCEL sip:bob@home.example SIP/2.0|Via: SIP/2.0/UDP 127.0.0.1:5060;branch=z9hG4bK0123456789abcdef-4|Max-Forwards: 70
|From: "Alice" <sip:alice@home.example>;tag=0123456789abcdef-3|To: <sip:bob@home.example>|Call-ID: 0123456789abcdef-2|CSeq: 1 CANCEL|Content-Length: 0|
at 5100 to 1|SIP/2.0 181 Call Is Being Forwarded|Via: SIP/2.0/UDP 127.0.0.1:5071;branch=z9hG4bKc1|From: "Alice" <sip:alice@home.example>;tag=t1
|To: <sip:bob@home.example>;tag=0123456789abcdef-1|Call-ID: call1|CSeq: 7 INVITE|Contact: <sip:127.0.0.1:5060>|History-Info: <sip:bob@home.example>;index=1
|History-Info: <sip:vm@far.example;cause=408>;index=1.1|Content-Length: 0|
at 5100 to 2|INVITE sip:vm@far.example;cause=408 SIP/2.0|Via: SIP/2.0/UDP 127.0.0.1:5060;branch=z9hG4bK0123456789abcdef-8|Max-Forwards: 67
|From: "Alice" <sip:alice@home.example>;tag=0123456789abcdef-7|To: <sip:vm@far.example>|Call-ID: 0123456789abcdef-6|CSeq: 1 INVITE|Contact: <sip:127.0.0.1:5060>
|P-Asserted-Identity: <sip:alice@home.example>|History-Info: <sip:bob@home.example>;index=1|History-Info: <sip:vm@far.example;cause=408>;index=1.1|Supported: 100rel
|Content-Length: 0|
~ A leg is taken into a conference room while an UPDATE is in flight.
=further:extension 100rel;
at 0 peer 1|INVITE sip:bob@home.example SIP/2.0|Via: SIP/2.0/UDP 127.0.0.1:5071;branch=z9hG4bKc1|Max-Forwards: 68|From: "Alice" <sip:alice@home.example>;tag=t1
|To: <sip:bob@home.example>|Call-ID: call1|CSeq: 7 INVITE|Contact: <sip:alice@127.0.0.1:5071>|P-Asserted-Identity: <sip:alice@home.example>|Content-Length: 0|
at 200 peer 1|SIP/2.0 200 OK|Via: SIP/2.0/UDP 127.0.0.1:5060;branch=z9hG4bK0123456789abcdef-4|From: "Alice" <sip:alice@home.example>;tag=0123456789abcdef-3
|To: <sip:bob@home.example>;tag=b1|Call-ID: 0123456789abcdef-2|CSeq: 1 INVITE|Contact: <sip:bob1@127.0.0.1:5071>|Content-Length: 0|
at 300 peer 1|ACK sip:127.0.0.1:5060 SIP/2.0|Via: SIP/2.0/UDP 127.0.0.1:5071;branch=z9hG4bKk1|Max-Forwards: 68|From: "Alice" <sip:alice@home.example>;tag=t1
|To: <sip:bob@home.example>;tag=0123456789abcdef-1|Call-ID: call1|CSeq: 7 ACK|Content-Length: 0|
at 1000 peer 1|INVITE sip:conf@home.example SIP/2.0|Via: SIP/2.0/UDP 127.0.0.1:5071;branch=z9hG4bKc2|Max-Forwards: 68|From: "Alice" <sip:alice@home.example>;tag=t2
|To: <sip:conf@home.example>|Call-ID: call2|CSeq: 7 INVITE|Contact: <sip:alice@127.0.0.1:5071>|P-Asserted-Identity: <sip:alice@home.example>|Content-Type: application/sdp
|Content-Length: 123||v=0|o=- 1 1 IN IP4 127.0.0.1|s=-|c=IN IP4 127.0.0.1|t=0 0|m=audio 5004 RTP/AVP 8 0|a=rtpmap:8 PCMA/8000|a=sendrecv
at 1100 peer 1|ACK sip:room-1@127.0.0.1:5060 SIP/2.0|Via: SIP/2.0/UDP 127.0.0.1:5071;branch=z9hG4bKk2|Max-Forwards: 68|From: "Alice" <sip:alice@home.example>;tag=t2
|To: <sip:conf@home.example>;tag=0123456789abcdef-6|Call-ID: call2|CSeq: 7 ACK|Content-Length: 0|
at 1950 peer 1|UPDATE sip:127.0.0.1:5060 SIP/2.0|Via: SIP/2.0/UDP 127.0.0.1:5071;branch=z9hG4bKu1|Max-Forwards: 68|From: "Alice" <sip:alice@home.example>;tag=t1
|To: <sip:bob@home.example>;tag=0123456789abcdef-1|Call-ID: call1|CSeq: 8 UPDATE|Contact: <sip:alice@127.0.0.1:5071>|Content-Length: 0|
at 2000 peer 1|REFER sip:room-1@127.0.0.1:5060 SIP/2.0|Via: SIP/2.0/UDP 127.0.0.1:5071;branch=z9hG4bKr1|Max-Forwards: 68|From: "Alice" <sip:alice@home.example>;tag=t2
|To: <sip:conf@home.example>;tag=0123456789abcdef-6|Call-ID: call2|CSeq: 8 REFER|Refer-To: <sip:bob@home.example?Replaces=call1%3Bto-tag%3D0123456789abcdef-1%3Bfrom-tag%3Dt1>
|Content-Length: 0|
at 2005 peer 1|SIP/2.0 200 OK|Via: SIP/2.0/UDP 127.0.0.1:5060;branch=z9hG4bK0123456789abcdef-7|From: "Alice" <sip:alice@home.example>;tag=0123456789abcdef-3
|To: <sip:bob@home.example>;tag=b1|Call-ID: 0123456789abcdef-2|CSeq: 2 UPDATE|Contact: <sip:bob1@127.0.0.1:5071>|Content-Length: 0|
at 2010 peer 1|SIP/2.0 200 OK|Via: SIP/2.0/UDP 127.0.0.1:5060;branch=z9hG4bK0123456789abcdef-8|From: <sip:conf@home.example>;tag=0123456789abcdef-6
|To: "Alice" <sip:alice@home.example>;tag=t2|Call-ID: call2|CSeq: 1 NOTIFY|Content-Length: 0|
at 2020 peer 1|SIP/2.0 200 OK|Via: SIP/2.0/UDP 127.0.0.1:5060;branch=z9hG4bK0123456789abcdef-10|From: <sip:bob@home.example>;tag=0123456789abcdef-1
|To: "Alice" <sip:alice@home.example>;tag=t1|Call-ID: call1|CSeq: 1 BYE|Content-Length: 0|
at 2100 peer 1|SIP/2.0 200 OK|Via: SIP/2.0/UDP 127.0.0.1:5060;branch=z9hG4bK0123456789abcdef-9|From: "Alice" <sip:alice@home.example>;tag=0123456789abcdef-3
|To: <sip:bob@home.example>;tag=b1|Call-ID: 0123456789abcdef-2|CSeq: 3 INVITE|Contact: <sip:bob1@127.0.0.1:5071>|Content-Length: 0|
at 2110 peer 1|SIP/2.0 200 OK|Via: SIP/2.0/UDP 127.0.0.1:5060;branch=z9hG4bK0123456789abcdef-12|From: <sip:conf@home.example>;tag=0123456789abcdef-6
|To: "Alice" <sip:alice@home.example>;tag=t2|Call-ID: call2|CSeq: 2 NOTIFY|Content-Length: 0|
at 2200 quiet
~ 487 to the UPDATE comes behind what the room sends, before the BYE.
at 0 to 1|SIP/2.0 100 Trying|Via: SIP/2.0/UDP 127.0.0.1:5071;branch=z9hG4bKc1|From: "Alice" <sip:alice@home.example>;tag=t1|To: <sip:bob@home.example>|Call-ID: call1
|CSeq: 7 INVITE|Content-Length: 0|
at 0 to 1|INVITE sip:bob@home.example SIP/2.0|Via: SIP/2.0/UDP 127.0.0.1:5060;branch=z9hG4bK0123456789abcdef-4|Max-Forwards: 67
|From: "Alice" <sip:alice@home.example>;tag=0123456789abcdef-3|To: <sip:bob@home.example>|Call-ID: 0123456789abcdef-2|CSeq: 1 INVITE|Contact: <sip:127.0.0.1:5060>
|P-Asserted-Identity: <sip:alice@home.example>|Content-Length: 0|
at 200 to 1|SIP/2.0 200 OK|Via: SIP/2.0/UDP 127.0.0.1:5071;branch=z9hG4bKc1|From: "Alice" <sip:alice@home.example>;tag=t1|To: <sip:bob@home.example>;tag=0123456789abcdef-1
|Call-ID: call1|CSeq: 7 INVITE|Contact: <sip:127.0.0.1:5060>|Content-Length: 0|
at 300 to 1|ACK sip:bob1@127.0.0.1:5071 SIP/2.0|Via: SIP/2.0/UDP 127.0.0.1:5060;branch=z9hG4bK0123456789abcdef-5|Max-Forwards: 67
|From: "Alice" <sip:alice@home.example>;tag=0123456789abcdef-3|To: <sip:bob@home.example>;tag=b1|Call-ID: 0123456789abcdef-2|CSeq: 1 ACK|Content-Length: 0|
at 1000 to 1|SIP/2.0 200 OK|Via: SIP/2.0/UDP 127.0.0.1:5071;branch=z9hG4bKc2|From: "Alice" <sip:alice@home.example>;tag=t2|To: <sip:conf@home.example>;tag=0123456789abcdef-6
|Call-ID: call2|CSeq: 7 INVITE|Contact: <sip:room-1@127.0.0.1:5060>;isfocus|Content-Type: application/sdp|Content-Length: 126||v=0|o=mixer 1 1 IN IP4 127.0.0.1|s=-
|c=IN IP4 127.0.0.1|t=0 0|m=audio 40000 RTP/AVP 8|a=rtpmap:8 PCMA/8000|a=sendrecv
at 1950 to 1|UPDATE sip:bob1@127.0.0.1:5071 SIP/2.0|Via: SIP/2.0/UDP 127.0.0.1:5060;branch=z9hG4bK0123456789abcdef-7|Max-Forwards: 67
|From: "Alice" <sip:alice@home.example>;tag=0123456789abcdef-3|To: <sip:bob@home.example>;tag=b1|Call-ID: 0123456789abcdef-2|CSeq: 2 UPDATE|Contact: <sip:127.0.0.1:5060>
|Content-Length: 0|
at 2000 to 1|SIP/2.0 202 Accepted|Via: SIP/2.0/UDP 127.0.0.1:5071;branch=z9hG4bKr1|From: "Alice" <sip:alice@home.example>;tag=t2
|To: <sip:conf@home.example>;tag=0123456789abcdef-6|Call-ID: call2|CSeq: 8 REFER|Contact: <sip:room-1@127.0.0.1:5060>;isfocus|Content-Length: 0|
at 2000 to 1|NOTIFY sip:alice@127.0.0.1:5071 SIP/2.0|Via: SIP/2.0/UDP 127.0.0.1:5060;branch=z9hG4bK0123456789abcdef-8|Max-Forwards: 70
|From: <sip:conf@home.example>;tag=0123456789abcdef-6|To: "Alice" <sip:alice@home.example>;tag=t2|Call-ID: call2|CSeq: 1 NOTIFY|Contact: <sip:room-1@127.0.0.1:5060>;isfocus
|Event: refer|Subscription-State: active;expires=180|Content-Type: message/sipfrag;version=2.0|Content-Length: 20||SIP/2.0 100 Trying
at 2000 to 1|INVITE sip:bob1@127.0.0.1:5071 SIP/2.0|Via: SIP/2.0/UDP 127.0.0.1:5060;branch=z9hG4bK0123456789abcdef-9|Max-Forwards: 70
|From: "Alice" <sip:alice@home.example>;tag=0123456789abcdef-3|To: <sip:bob@home.example>;tag=b1|Call-ID: 0123456789abcdef-2|CSeq: 3 INVITE
|Contact: <sip:room-1@127.0.0.1:5060>;isfocus|Content-Type: application/sdp|Content-Length: 106||v=0|o=mixer 1 1 IN IP4 127.0.0.1|s=-|c=IN IP4 127.0.0.1|t=0 0
|m=audio 40000 RTP/AVP 0 8|a=sendrecv
at 2000 to 1|SIP/2.0 487 Request Terminated|Via: SIP/2.0/UDP 127.0.0.1:5071;branch=z9hG4bKu1|From: "Alice" <sip:alice@home.example>;tag=t1
|To: <sip:bob@home.example>;tag=0123456789abcdef-1|Call-ID: call1|CSeq: 8 UPDATE|Content-Length: 0|
at 2000 to 1|BYE sip:alice@127.0.0.1:5071 SIP/2.0|Via: SIP/2.0/UDP 127.0.0.1:5060;branch=z9hG4bK0123456789abcdef-10|Max-Forwards: 70
|From: <sip:bob@home.example>;tag=0123456789abcdef-1|To: "Alice" <sip:alice@home.example>;tag=t1|Call-ID: call1|CSeq: 1 BYE|Content-Length: 0|
at 2100 to 1|ACK sip:bob1@127.0.0.1:5071 SIP/2.0|Via: SIP/2.0/UDP 127.0.0.1:5060;branch=z9hG4bK0123456789abcdef-11|Max-Forwards: 70
|From: "Alice" <sip:alice@home.example>;tag=0123456789abcdef-3|To: <sip:bob@home.example>;tag=b1|Call-ID: 0123456789abcdef-2|CSeq: 3 ACK|Content-Length: 0|
at 2100 to 1|NOTIFY sip:alice@127.0.0.1:5071 SIP/2.0|Via: SIP/2.0/UDP 127.0.0.1:5060;branch=z9hG4bK0123456789abcdef-12|Max-Forwards: 70
|From: <sip:conf@home.example>;tag=0123456789abcdef-6|To: "Alice" <sip:alice@home.example>;tag=t2|Call-ID: call2|CSeq: 2 NOTIFY|Contact: <sip:room-1@127.0.0.1:5060>;isfocus
|Event: refer|Subscription-State: terminated;reason=noresource|Content-Type: message/sipfrag;version=2.0|Content-Length: 16||SIP/2.0 200 OK
"#;

#[test]
fn requests_in_flight(rt: HostRuntime) {
    assert_right(&rt, "IN_FLIGHT", wrong_run(rt.alloc(), IN_FLIGHT));
}
