//! The messages of calls, whole.
//!
//! A caller who requests privacy calls another network, and abandons the call before any response; late responses have their CANCEL, their ACK and their BYE (RFC 3261 §9.1,
//! §13.2.2.4; TS 24.607 §4.5.2).
//! A caller whose record always restricts calls the home network and is answered: its target is in the trust domain and gets the identity with the request that no one else may
//! (RFC 3325 §7); the header table decides which header fields of each side's messages reach the other one, an early response fixes the dialog, and BYE ends it.

use crate::asserting::assert_right;
use crate::call_tables::wrong_step;

const WHOLE: &[u8] = br#"# a caller who asks for privacy calls far away, and gives up
>> 0 invite 1 erin@other.example sip:bob@far.example|Privacy: id
reply 0:
SIP/2.0 100 Trying
Via: SIP/2.0/UDP 127.0.0.1:5071;branch=z9hG4bKr0
From: "Caller" <sip:erin@other.example>;tag=a
To: <sip:bob@far.example>
Call-ID: c1
CSeq: 7 INVITE
Content-Length: 0

ask 1 to 2:
INVITE sip:bob@far.example SIP/2.0
Via: SIP/2.0/UDP 127.0.0.1:5060;branch=z9hG4bK0123456789abcdef-4
Max-Forwards: 67
From: "Anonymous" <sip:anonymous@anonymous.invalid>;tag=0123456789abcdef-3
To: <sip:bob@far.example>
Call-ID: 0123456789abcdef-2
CSeq: 1 INVITE
Contact: <sip:127.0.0.1:5060>
Content-Length: 0

due cap 1 at 180000
-> asked
>> 100 cancel 0 7
reply 2:
SIP/2.0 200 OK
Via: SIP/2.0/UDP 127.0.0.1:5071;branch=z9hG4bKr0
From: "Caller" <sip:erin@other.example>;tag=a
To: <sip:bob@far.example>;tag=0123456789abcdef-1
Call-ID: c1
CSeq: 7 CANCEL
Content-Length: 0

reply 0:
SIP/2.0 487 Request Terminated
Via: SIP/2.0/UDP 127.0.0.1:5071;branch=z9hG4bKr0
From: "Caller" <sip:erin@other.example>;tag=a
To: <sip:bob@far.example>;tag=0123456789abcdef-1
Call-ID: c1
CSeq: 7 INVITE
Content-Length: 0

-> over cancelled, loose 1
>> 200 answer 1 - 100 Trying
ask 3 to 2:
CANCEL sip:bob@far.example SIP/2.0
Via: SIP/2.0/UDP 127.0.0.1:5060;branch=z9hG4bK0123456789abcdef-4
Max-Forwards: 70
From: "Anonymous" <sip:anonymous@anonymous.invalid>;tag=0123456789abcdef-3
To: <sip:bob@far.example>
Call-ID: 0123456789abcdef-2
CSeq: 1 CANCEL
Content-Length: 0

-> over cancelled, loose 1
>> 250 answer 1 b 200 OK
plain to 2:
ACK sip:b@127.0.0.1:5072 SIP/2.0
Via: SIP/2.0/UDP 127.0.0.1:5060;branch=z9hG4bK0123456789abcdef-5
Max-Forwards: 70
From: "Anonymous" <sip:anonymous@anonymous.invalid>;tag=0123456789abcdef-3
To: <sip:bob@far.example>;tag=b
Call-ID: 0123456789abcdef-2
CSeq: 1 ACK
Content-Length: 0

ask 4 to 2:
BYE sip:b@127.0.0.1:5072 SIP/2.0
Via: SIP/2.0/UDP 127.0.0.1:5060;branch=z9hG4bK0123456789abcdef-6
Max-Forwards: 70
From: "Anonymous" <sip:anonymous@anonymous.invalid>;tag=0123456789abcdef-3
To: <sip:bob@far.example>;tag=b
Call-ID: 0123456789abcdef-2
CSeq: 2 BYE
Content-Length: 0

-> over cancelled, loose 1
# a restricted caller talks with a trusted side
> record 1 oir permanent
>> 0 invite 1 alice@home.example sip:bob@home.example|Privacy: none|Subject: s|Reason: SIP;cause=200|Supported: 100rel, histinfo|X-Odd: 1
reply 0:
SIP/2.0 100 Trying
Via: SIP/2.0/UDP 127.0.0.1:5071;branch=z9hG4bKr0
From: "Caller" <sip:alice@home.example>;tag=a
To: <sip:bob@home.example>
Call-ID: c1
CSeq: 7 INVITE
Content-Length: 0

ask 1 to 1:
INVITE sip:bob@home.example SIP/2.0
Via: SIP/2.0/UDP 127.0.0.1:5060;branch=z9hG4bK0123456789abcdef-4
Max-Forwards: 67
From: "Anonymous" <sip:anonymous@anonymous.invalid>;tag=0123456789abcdef-3
To: <sip:bob@home.example>
Call-ID: 0123456789abcdef-2
CSeq: 1 INVITE
Contact: <sip:127.0.0.1:5060>
P-Asserted-Identity: <sip:alice@home.example>
Privacy: id
Reason: SIP;cause=200
Supported: histinfo
Content-Length: 0

due cap 1 at 180000
-> asked
>> 100 answer 1 b 183 Session Progress|Record-Route: <sip:p2.home.example;lr>, <sip:p1.home.example;lr>|Server: S|Require: 100rel|Content-Type: text/plain|=hi
reply 0:
SIP/2.0 183 Session Progress
Via: SIP/2.0/UDP 127.0.0.1:5071;branch=z9hG4bKr0
From: "Caller" <sip:alice@home.example>;tag=a
To: <sip:bob@home.example>;tag=0123456789abcdef-1
Call-ID: c1
CSeq: 7 INVITE
Contact: <sip:127.0.0.1:5060>
Server: S
Content-Type: text/plain
Content-Length: 4

hi
-> ringing
>> 200 answer 1 b 200 Fine|Record-Route: <sip:p1.home.example;lr>|P-Asserted-Identity: <sip:bob@home.example>
reply 0:
SIP/2.0 200 Fine
Via: SIP/2.0/UDP 127.0.0.1:5071;branch=z9hG4bKr0
From: "Caller" <sip:alice@home.example>;tag=a
To: <sip:bob@home.example>;tag=0123456789abcdef-1
Call-ID: c1
CSeq: 7 INVITE
Contact: <sip:127.0.0.1:5060>
P-Asserted-Identity: <sip:bob@home.example>
Content-Length: 0

due no-ack 1 at 32200
-> answered caller
>> 300 caller ACK 7|Content-Type: text/plain|Subject: s|=ok
plain to 1:
ACK sip:b@127.0.0.1:5071 SIP/2.0
Via: SIP/2.0/UDP 127.0.0.1:5060;branch=z9hG4bK0123456789abcdef-5
Route: <sip:p1.home.example;lr>
Max-Forwards: 67
From: "Anonymous" <sip:anonymous@anonymous.invalid>;tag=0123456789abcdef-3
To: <sip:bob@home.example>;tag=b
Call-ID: 0123456789abcdef-2
CSeq: 1 ACK
Privacy: id
Content-Type: text/plain
Content-Length: 4

ok
-> talking
>> 310 answer 1 b 200 Fine
plain to 1:
ACK sip:b@127.0.0.1:5071 SIP/2.0
Via: SIP/2.0/UDP 127.0.0.1:5060;branch=z9hG4bK0123456789abcdef-5
Route: <sip:p1.home.example;lr>
Max-Forwards: 67
From: "Anonymous" <sip:anonymous@anonymous.invalid>;tag=0123456789abcdef-3
To: <sip:bob@home.example>;tag=b
Call-ID: 0123456789abcdef-2
CSeq: 1 ACK
Privacy: id
Content-Type: text/plain
Content-Length: 4

ok
-> talking
>> 1000 callee INVITE 1
reply 2:
SIP/2.0 100 Trying
Via: SIP/2.0/UDP 127.0.0.1:5071;branch=z9hG4bKr2
From: <sip:callee@home.example>;tag=b
To: <sip:caller@home.example>;tag=0123456789abcdef-3
Call-ID: 0123456789abcdef-2
CSeq: 1 INVITE
Content-Length: 0

ask 3 to 1:
INVITE sip:caller@127.0.0.1:5071 SIP/2.0
Via: SIP/2.0/UDP 127.0.0.1:5060;branch=z9hG4bK0123456789abcdef-6
Max-Forwards: 67
From: <sip:bob@home.example>;tag=0123456789abcdef-1
To: "Caller" <sip:alice@home.example>;tag=a
Call-ID: c1
CSeq: 1 INVITE
Contact: <sip:127.0.0.1:5060>
Content-Length: 0

-> asking callee
>> 1010 answer 3 - 200 OK
reply 2:
SIP/2.0 200 OK
Via: SIP/2.0/UDP 127.0.0.1:5071;branch=z9hG4bKr2
From: <sip:callee@home.example>;tag=b
To: <sip:caller@home.example>;tag=0123456789abcdef-3
Call-ID: 0123456789abcdef-2
CSeq: 1 INVITE
Contact: <sip:127.0.0.1:5060>
Privacy: id
Content-Length: 0

due no-ack 2 at 33010
-> answered callee
>> 1020 callee ACK 1
plain to 1:
ACK sip:caller@127.0.0.1:5071 SIP/2.0
Via: SIP/2.0/UDP 127.0.0.1:5060;branch=z9hG4bK0123456789abcdef-7
Max-Forwards: 67
From: <sip:bob@home.example>;tag=0123456789abcdef-1
To: "Caller" <sip:alice@home.example>;tag=a
Call-ID: c1
CSeq: 1 ACK
Content-Length: 0

-> talking
>> 2000 callee BYE 2|Reason: Q.850;cause=16
reply 4:
SIP/2.0 200 OK
Via: SIP/2.0/UDP 127.0.0.1:5071;branch=z9hG4bKr4
From: <sip:callee@home.example>;tag=b
To: <sip:caller@home.example>;tag=0123456789abcdef-3
Call-ID: 0123456789abcdef-2
CSeq: 2 BYE
Content-Length: 0

ask 5 to 1:
BYE sip:caller@127.0.0.1:5071 SIP/2.0
Via: SIP/2.0/UDP 127.0.0.1:5060;branch=z9hG4bK0123456789abcdef-8
Max-Forwards: 67
From: <sip:bob@home.example>;tag=0123456789abcdef-1
To: "Caller" <sip:alice@home.example>;tag=a
Call-ID: c1
CSeq: 2 BYE
Reason: Q.850;cause=16
Content-Length: 0

origin,1,1,0,200,2000,0,ended,0
terminating,2,1,0,200,2000,0,ended,0
-> over ended
"#;

#[test]
fn whole(rt: HostRuntime) {
    assert_right(&rt, "WHOLE", wrong_step(rt.alloc(), WHOLE));
}
