//! A user is invited by REFER.

use crate::asserting::assert_right;
use crate::conference_tables::wrong_participant;

/// A REFER without Refer-To, of another method, to a URI without a route and of another scheme (RFC 3515 §2.4.2). Bob is invited, and has no dialog before his 2xx; then he is a
/// participant, his 2xx has its ACK again, and one of another branch of his has nothing. Carol is busy, x does not respond at all, then too late with and without a provisional
/// response, which decides when the CANCEL is sent (RFC 3261 §9.1); a late 2xx has ACK and BYE, once for each of its tags. The referrer is notified of each end, but not once it
/// has left; where the conference closes an invitation continues alone.
const INVITING: &[u8] = br#"> 0 create 1 1 alice@home.example
room 1
reply 0: 200 OK, 7 INVITE
due 1 seat 1 no-ack 1 at 32000
seats 1 0 0
> 10 say 1 c1 t-1 a1 ACK 7
-> room 1 seat 1
seats 1 0 0
> 100 say 1 c1 t-1 a1 REFER 8
-> room 1 seat 1
reply 1: 400 Bad Request, 8 REFER
seats 1 0 0
> 110 say 1 c1 t-1 a1 REFER 9 <sip:bob@home.example;method=BYE>
-> room 1 seat 1
reply 2: 403 Forbidden, 9 REFER
seats 1 0 0
> 120 say 1 c1 t-1 a1 REFER 10 <sip:bob@nowhere.example>
-> room 1 seat 1
reply 3: 202 Accepted, 10 REFER
ask 4 to 1: NOTIFY sip:caller@127.0.0.1:5071, 1 NOTIFY
 active;expires=180: SIP/2.0 100 Trying
ask 5 to 1: NOTIFY sip:caller@127.0.0.1:5071, 2 NOTIFY
 terminated;reason=noresource: SIP/2.0 404 Not Found
seats 1 0 0
> 130 say 1 c1 t-1 a1 REFER 11 <mailto:bob@home.example>
-> room 1 seat 1
reply 6: 202 Accepted, 11 REFER
ask 7 to 1: NOTIFY sip:caller@127.0.0.1:5071, 3 NOTIFY
 active;expires=180: SIP/2.0 100 Trying
ask 8 to 1: NOTIFY sip:caller@127.0.0.1:5071, 4 NOTIFY
 terminated;reason=noresource: SIP/2.0 404 Not Found
seats 1 0 0
> 140 say 1 c1 t-1 a1 REFER 12 <sip:bob@home.example;method=INVITE>
-> room 1 seat 1
reply 9: 202 Accepted, 12 REFER
ask 10 to 1: NOTIFY sip:caller@127.0.0.1:5071, 5 NOTIFY
 active;expires=180: SIP/2.0 100 Trying
ask 11 to 1: INVITE sip:bob@home.example, 1 INVITE
due 1 seat 2 cap 2 at 180140
seats 2 0 0
? find t-7 t-8 -
-> none
> 150 press 1 2 1 t-7 t-8 b BYE 1
reply 12: 481 Call/Transaction Does Not Exist, 1 BYE
seats 2 0 0
> 160 answer 11 b 180 Ringing
seats 2 0 0
> 170 answer 11 b 200 OK
plain to 1: ACK sip:b@127.0.0.1:5071, 1 ACK
ask 13 to 1: NOTIFY sip:caller@127.0.0.1:5071, 6 NOTIFY
 terminated;reason=noresource: SIP/2.0 200 OK
seats 2 0 0
? find t-7 t-8 b
-> room 1 seat 2
> 180 answer 11 b 200 OK
plain to 1: ACK sip:b@127.0.0.1:5071, 1 ACK
seats 2 0 0
> 190 answer 11 c 200 OK
seats 2 0 0
> 195 answer 11 b 180 Ringing
seats 2 0 0
> 200 due 1 2 cap 2
seats 2 0 0
> 210 say 1 t-7 t-8 b INVITE 1 audio
-> room 1 seat 2
reply 14: 200 OK, 1 INVITE
due 1 seat 2 no-ack 3 at 32210
seats 2 0 0
> 220 say 1 t-7 t-8 b ACK 1
-> room 1 seat 2
seats 2 0 0
> 300 say 1 t-7 t-8 b REFER 2 sip:carol@home.example
-> room 1 seat 2
reply 15: 202 Accepted, 2 REFER
ask 16 to 1: NOTIFY sip:b@127.0.0.1:5071, 2 NOTIFY
 active;expires=180: SIP/2.0 100 Trying
ask 17 to 1: INVITE sip:carol@home.example, 1 INVITE
due 1 seat 3 cap 4 at 180300
seats 3 0 0
> 310 answer 17 d 486 Busy Here
ack 17: ACK sip:carol@home.example, 1 ACK
ask 18 to 1: NOTIFY sip:b@127.0.0.1:5071, 3 NOTIFY
 terminated;reason=noresource: SIP/2.0 486 Busy Here
seats 2 0 0
> 320 answer 17 d 486 Busy Here
seats 2 0 0
> 400 say 1 c1 t-1 a1 REFER 13 <sip:x@far.example>
-> room 1 seat 1
reply 19: 202 Accepted, 13 REFER
ask 20 to 1: NOTIFY sip:caller@127.0.0.1:5071, 7 NOTIFY
 active;expires=180: SIP/2.0 100 Trying
ask 21 to 2: INVITE sip:x@far.example, 1 INVITE
due 1 seat 4 cap 5 at 180400
seats 3 0 0
> 32400 silent 21
ask 22 to 1: NOTIFY sip:caller@127.0.0.1:5071, 8 NOTIFY
 terminated;reason=noresource: SIP/2.0 408 Request Timeout
seats 2 0 0
> 40000 say 1 c1 t-1 a1 REFER 14 <sip:x@far.example>
-> room 1 seat 1
reply 23: 202 Accepted, 14 REFER
ask 24 to 1: NOTIFY sip:caller@127.0.0.1:5071, 9 NOTIFY
 active;expires=180: SIP/2.0 100 Trying
ask 25 to 2: INVITE sip:x@far.example, 1 INVITE
due 1 seat 5 cap 6 at 220000
seats 3 0 0
> 40100 answer 25 e 183 Session Progress
seats 3 0 0
> 220000 due 1 5 cap 6
ask 26 to 2: CANCEL sip:x@far.example, 1 CANCEL
ask 27 to 1: NOTIFY sip:caller@127.0.0.1:5071, 10 NOTIFY
 terminated;reason=noresource: SIP/2.0 408 Request Timeout
seats 2 0 0
> 220100 answer 25 e 180 Ringing
seats 2 0 0
> 220200 answer 25 e 200 OK
plain to 2: ACK sip:e@127.0.0.1:5072, 1 ACK
ask 28 to 2: BYE sip:e@127.0.0.1:5072, 2 BYE
seats 2 0 0
> 220300 answer 25 e 200 OK
plain to 2: ACK sip:e@127.0.0.1:5072, 1 ACK
seats 2 0 0
> 220400 answer 25 f 200 OK
plain to 2: ACK sip:f@127.0.0.1:5072, 1 ACK
ask 29 to 2: BYE sip:f@127.0.0.1:5072, 2 BYE
seats 2 0 0
> 220600 over 25
seats 2 0 0
> 220700 answer 25 e 200 OK
seats 2 0 0
> 300000 say 1 c1 t-1 a1 REFER 15 <sip:x@far.example>
-> room 1 seat 1
reply 30: 202 Accepted, 15 REFER
ask 31 to 1: NOTIFY sip:caller@127.0.0.1:5071, 11 NOTIFY
 active;expires=180: SIP/2.0 100 Trying
ask 32 to 2: INVITE sip:x@far.example, 1 INVITE
due 1 seat 6 cap 7 at 480000
seats 3 0 0
> 480000 due 1 6 cap 7
ask 33 to 1: NOTIFY sip:caller@127.0.0.1:5071, 12 NOTIFY
 terminated;reason=noresource: SIP/2.0 408 Request Timeout
seats 2 0 0
> 480100 answer 32 - 100 Trying
ask 34 to 2: CANCEL sip:x@far.example, 1 CANCEL
seats 2 0 0
> 480200 answer 32 g 487 Request Terminated
ack 32: ACK sip:x@far.example, 1 ACK
seats 2 0 0
> 480300 answer 32 g 200 OK
seats 2 0 0
> 500000 say 1 c1 t-1 a1 REFER 16 <sip:x@far.example>
-> room 1 seat 1
reply 35: 202 Accepted, 16 REFER
ask 36 to 1: NOTIFY sip:caller@127.0.0.1:5071, 13 NOTIFY
 active;expires=180: SIP/2.0 100 Trying
ask 37 to 2: INVITE sip:x@far.example, 1 INVITE
due 1 seat 7 cap 8 at 680000
seats 3 0 0
> 500100 say 1 t-7 t-8 b REFER 3 <sip:carol@home.example>
-> room 1 seat 2
reply 38: 202 Accepted, 3 REFER
ask 39 to 1: NOTIFY sip:b@127.0.0.1:5071, 4 NOTIFY
 active;expires=180: SIP/2.0 100 Trying
ask 40 to 1: INVITE sip:carol@home.example, 1 INVITE
due 1 seat 8 cap 9 at 680100
seats 4 0 0
> 500200 say 1 t-7 t-8 b BYE 4
-> room 1 seat 2
reply 41: 200 OK, 4 BYE
seats 3 0 0
> 500300 answer 40 h 200 OK
plain to 1: ACK sip:h@127.0.0.1:5071, 1 ACK
seats 3 0 0
? rows
participant,2,1,170,170,500200,0,ended,0
> 500400 say 1 c1 t-1 a1 BYE 17
-> room 1 seat 1
reply 42: 200 OK, 17 BYE
ask 43 to 1: BYE sip:h@127.0.0.1:5071, 2 BYE
seats 0 0 0
? rows
participant,2,1,170,170,500200,0,ended,0
participant,1,1,0,0,500400,0,ended,0
participant,3,1,500300,500300,500400,0,ended,0
> 500500 answer 37 i 200 OK
plain to 2: ACK sip:i@127.0.0.1:5072, 1 ACK
ask 44 to 2: BYE sip:i@127.0.0.1:5072, 2 BYE
seats 0 0 0
> 500600 silent 37
seats 0 0 0
> 500700 answer 37 i 200 OK
seats 0 0 0
"#;

#[test]
fn inviting(rt: HostRuntime) {
    assert_right(&rt, "INVITING", wrong_participant(rt.alloc(), INVITING));
}
