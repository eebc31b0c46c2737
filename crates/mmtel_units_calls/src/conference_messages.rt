//! The messages of conferences, whole.

use crate::asserting::assert_right;
use crate::conference_tables::wrong_participant;

/// The mixer accepts the first audio medium, with its map, and refuses the others (RFC 3264 §6); 202, NOTIFY and INVITE name the conference and its focus (RFC 4579 §5.1), and the
/// INVITE offers the mixer's audio. The target of a REFER has neither its method nor its headers; a user who is invited is called from the conference. NOTIFY has a status line as
/// its body (RFC 3420), as it was received or of the server's own; a leg out of a call is adopted by a re-INVITE within its dialog.
const ROOM_MESSAGES: &[u8] = br#"# messages are told whole
> 0 create 1 1 alice@home.example
room 1
reply 0:
SIP/2.0 200 OK
Via: SIP/2.0/UDP 127.0.0.1:5071;branch=z9hG4bKr0
From: <sip:alice@home.example>;tag=a1
To: <sip:conf@home.example>;tag=t-1
Call-ID: c1
CSeq: 7 INVITE
Contact: <sip:room-1@127.0.0.1:5060>;isfocus
Content-Type: application/sdp
Content-Length: 147

v=0
o=mixer 1 1 IN IP4 127.0.0.1
s=-
c=IN IP4 127.0.0.1
t=0 0
m=audio 40000 RTP/AVP 96
a=rtpmap:96 X/8000
a=sendrecv
m=video 0 RTP/AVP 31
due 1 seat 1 no-ack 1 at 32000
seats 1 0 0
> 10 say 1 c1 t-1 a1 ACK 7
-> room 1 seat 1
seats 1 0 0
> 20 say 1 c1 t-1 a1 REFER 8 <sip:x@far.example;method=INVITE?Subject=s>
-> room 1 seat 1
reply 1:
SIP/2.0 202 Accepted
Via: SIP/2.0/UDP 127.0.0.1:5071;branch=z9hG4bKr1
From: <sip:this@home.example>;tag=a1
To: <sip:that@home.example>;tag=t-1
Call-ID: c1
CSeq: 8 REFER
Contact: <sip:room-1@127.0.0.1:5060>;isfocus
Content-Length: 0

ask 2 to 1:
NOTIFY sip:caller@127.0.0.1:5071 SIP/2.0
Via: SIP/2.0/UDP 127.0.0.1:5060;branch=z9hG4bKt-2
Max-Forwards: 70
From: <sip:conf@home.example>;tag=t-1
To: <sip:alice@home.example>;tag=a1
Call-ID: c1
CSeq: 1 NOTIFY
Contact: <sip:room-1@127.0.0.1:5060>;isfocus
Event: refer
Subscription-State: active;expires=180
Content-Type: message/sipfrag;version=2.0
Content-Length: 20

SIP/2.0 100 Trying
ask 3 to 2:
INVITE sip:x@far.example SIP/2.0
Via: SIP/2.0/UDP 127.0.0.1:5060;branch=z9hG4bKt-5
Max-Forwards: 70
From: <sip:room-1@127.0.0.1:5060>;tag=t-4
To: <sip:x@far.example>
Call-ID: t-3
CSeq: 1 INVITE
Contact: <sip:room-1@127.0.0.1:5060>;isfocus
Content-Type: application/sdp
Content-Length: 106

v=0
o=mixer 1 1 IN IP4 127.0.0.1
s=-
c=IN IP4 127.0.0.1
t=0 0
m=audio 40000 RTP/AVP 0 8
a=sendrecv
due 1 seat 2 cap 2 at 180020
seats 2 0 0
> 30 answer 3 b 200 OK
plain to 2:
ACK sip:b@127.0.0.1:5072 SIP/2.0
Via: SIP/2.0/UDP 127.0.0.1:5060;branch=z9hG4bKt-6
Max-Forwards: 70
From: <sip:room-1@127.0.0.1:5060>;tag=t-4
To: <sip:x@far.example>;tag=b
Call-ID: t-3
CSeq: 1 ACK
Content-Length: 0

ask 4 to 1:
NOTIFY sip:caller@127.0.0.1:5071 SIP/2.0
Via: SIP/2.0/UDP 127.0.0.1:5060;branch=z9hG4bKt-7
Max-Forwards: 70
From: <sip:conf@home.example>;tag=t-1
To: <sip:alice@home.example>;tag=a1
Call-ID: c1
CSeq: 2 NOTIFY
Contact: <sip:room-1@127.0.0.1:5060>;isfocus
Event: refer
Subscription-State: terminated;reason=noresource
Content-Type: message/sipfrag;version=2.0
Content-Length: 16

SIP/2.0 200 OK
seats 2 0 0
> 40 notify 1 1 481
ask 5 to 1:
NOTIFY sip:caller@127.0.0.1:5071 SIP/2.0
Via: SIP/2.0/UDP 127.0.0.1:5060;branch=z9hG4bKt-8
Max-Forwards: 70
From: <sip:conf@home.example>;tag=t-1
To: <sip:alice@home.example>;tag=a1
Call-ID: c1
CSeq: 3 NOTIFY
Contact: <sip:room-1@127.0.0.1:5060>;isfocus
Event: refer
Subscription-State: terminated;reason=noresource
Content-Type: message/sipfrag;version=2.0
Content-Length: 45

SIP/2.0 481 Call/Transaction Does Not Exist
seats 2 0 0
> 50 adopt 1 1 1 2 erin@home.example caller
ask 6 to 1:
INVITE sip:caller@127.0.0.1:5071 SIP/2.0
Via: SIP/2.0/UDP 127.0.0.1:5060;branch=z9hG4bKt-10
Max-Forwards: 70
From: <sip:bob@home.example>;tag=t-9
To: <sip:erin@home.example>;tag=a2
Call-ID: c2
CSeq: 1 INVITE
Contact: <sip:room-1@127.0.0.1:5060>;isfocus
Content-Type: application/sdp
Content-Length: 106

v=0
o=mixer 1 1 IN IP4 127.0.0.1
s=-
c=IN IP4 127.0.0.1
t=0 0
m=audio 40000 RTP/AVP 0 8
a=sendrecv
seats 3 0 0
> 60 answer 6 - 486 No
ack 6:
ACK sip:caller@127.0.0.1:5071 SIP/2.0
Via: SIP/2.0/UDP 127.0.0.1:5060;branch=z9hG4bKt-10
Max-Forwards: 70
From: <sip:bob@home.example>;tag=t-9
To: <sip:erin@home.example>;tag=a2
Call-ID: c2
CSeq: 1 ACK
Content-Length: 0

ask 7 to 1:
BYE sip:caller@127.0.0.1:5071 SIP/2.0
Via: SIP/2.0/UDP 127.0.0.1:5060;branch=z9hG4bKt-11
Max-Forwards: 70
From: <sip:bob@home.example>;tag=t-9
To: <sip:erin@home.example>;tag=a2
Call-ID: c2
CSeq: 2 BYE
Content-Length: 0

ask 8 to 1:
NOTIFY sip:caller@127.0.0.1:5071 SIP/2.0
Via: SIP/2.0/UDP 127.0.0.1:5060;branch=z9hG4bKt-12
Max-Forwards: 70
From: <sip:conf@home.example>;tag=t-1
To: <sip:alice@home.example>;tag=a1
Call-ID: c1
CSeq: 4 NOTIFY
Contact: <sip:room-1@127.0.0.1:5060>;isfocus
Event: refer
Subscription-State: terminated;reason=noresource
Content-Type: message/sipfrag;version=2.0
Content-Length: 16

SIP/2.0 486 No
seats 2 0 0
> 70 say 2 t-3 t-4 b OPTIONS 1
-> room 1 seat 2
reply 9:
SIP/2.0 200 OK
Via: SIP/2.0/UDP 127.0.0.1:5072;branch=z9hG4bKr9
From: <sip:this@home.example>;tag=b
To: <sip:that@home.example>;tag=t-4
Call-ID: t-3
CSeq: 1 OPTIONS
Allow: INVITE, ACK, CANCEL, BYE, OPTIONS, REGISTER, REFER
Content-Length: 0

seats 2 0 0
> 80 say 1 c1 t-1 a1 BYE 9
-> room 1 seat 1
reply 10:
SIP/2.0 200 OK
Via: SIP/2.0/UDP 127.0.0.1:5071;branch=z9hG4bKr10
From: <sip:this@home.example>;tag=a1
To: <sip:that@home.example>;tag=t-1
Call-ID: c1
CSeq: 9 BYE
Content-Length: 0

ask 11 to 2:
BYE sip:b@127.0.0.1:5072 SIP/2.0
Via: SIP/2.0/UDP 127.0.0.1:5060;branch=z9hG4bKt-13
Max-Forwards: 70
From: <sip:room-1@127.0.0.1:5060>;tag=t-4
To: <sip:x@far.example>;tag=b
Call-ID: t-3
CSeq: 2 BYE
Content-Length: 0

seats 0 0 0
"#;

#[test]
fn room_messages(rt: HostRuntime) {
    assert_right(
        &rt,
        "ROOM_MESSAGES",
        wrong_participant(rt.alloc(), ROOM_MESSAGES),
    );
}
