//! Several calls at once.

use crate::asserting::assert_right;
use crate::tables_of_calls::wrong_call;

/// Bob has waiting with two calls: Alice and Erin call him, Carol gets a busy response for him (TS 24.615 §4.5.5). Each account has as many calls as it makes, as are offered to it
/// and as it answered; a request is of the call whose dialog it names (RFC 3261 §12.2.2), a CANCEL of the one whose INVITE it matches, refused or not (§9.2), and a response of the
/// one to whose INVITE it belongs, which may have ended (§13.2.2.4). Rows wait in the order in which they were closed.
const TOGETHER: &[u8] = br#"> 0 invite 1 1 alice@home.example sip:bob@home.example
reply 0: 100 Trying, 7 INVITE
ask 1 to 1: INVITE sip:bob@home.example, 1 INVITE
due 1 cap 1 at 180000
live 1 1 0 0
? find c1 t-1 a1
-> 1 caller
? find t-2 t-3 b
-> none
? find t-2 t-3 -
-> none
? find c1 a1 t-1
-> none
? asked 0
-> 1 caller
? asked 1
-> none
? party 1
-> peer 1, account 1
-> peer 1, account 2
? party 2
-> none
-> none
> 100 invite 1 2 erin@home.example sip:bob@home.example
reply 2: 100 Trying, 7 INVITE
ask 3 to 1: INVITE sip:bob@home.example, 1 INVITE
 Alert-Info: <urn:alert:service:call-waiting>
due 2 cap 1 at 180100
live 1 2 0 1
> 200 invite 1 3 carol@home.example sip:bob@home.example
reply 4: 100 Trying, 7 INVITE
reply 4: 486 Busy Here, 7 INVITE
live 1 2 0 1
? asked 4
-> none
? find c3 t-9 a3
-> none
? party 3
-> none
-> none
> 300 answer 1 b 180 Ringing
reply 0: 180 Ringing, 7 INVITE
live 1 2 0 1
? find t-2 t-3 b
-> 1 callee
> 400 answer 3 d 200 OK
reply 2: 200 OK, 7 INVITE
due 2 no-ack 1 at 32400
live 1 2 0 1
> 500 say 1 c2 t-5 a2 ACK 7
-> 2 caller
plain to 1: ACK sip:d@127.0.0.1:5071, 1 ACK
live 1 2 0 1
> 600 answer 1 b 200 OK
reply 0: 200 OK, 7 INVITE
due 1 no-ack 1 at 32600
live 1 2 0 1
> 700 say 1 c1 t-1 a1 ACK 7
-> 1 caller
plain to 1: ACK sip:b@127.0.0.1:5071, 1 ACK
live 1 2 0 1
> 800 say 1 t-2 t-3 b INVITE 1
-> 1 callee
reply 5: 100 Trying, 1 INVITE
ask 6 to 1: INVITE sip:caller@127.0.0.1:5071, 1 INVITE
live 1 2 0 1
> 810 say 1 c1 t-1 a1 INVITE 8
-> 1 caller
reply 7: 491 Request Pending, 8 INVITE
live 1 2 0 1
> 820 say 1 t-2 t-3 b INVITE 2
-> 1 callee
reply 8: 500 Server Internal Error, 2 INVITE
 Retry-After: 5
live 1 2 0 1
? asked 5
-> 1 callee
? asked 7
-> 1 caller
? asked 8
-> 1 callee
> 830 cancel 8 1 t-2 - b 2
-> 1 callee
reply 9: 200 OK, 2 CANCEL
live 1 2 0 1
> 840 cancel 0 1 c1 - a1 7
-> 1 caller
reply 10: 200 OK, 7 CANCEL
live 1 2 0 1
> 850 answer 6 - 200 OK
reply 5: 200 OK, 1 INVITE
due 1 no-ack 2 at 32850
live 1 2 0 1
> 860 say 1 t-2 t-3 b ACK 1
-> 1 callee
plain to 1: ACK sip:caller@127.0.0.1:5071, 1 ACK
live 1 2 0 1
> 1000 say 1 c2 t-5 a2 BYE 8
-> 2 caller
reply 11: 200 OK, 8 BYE
ask 12 to 1: BYE sip:d@127.0.0.1:5071, 2 BYE
live 1 1 0 0
? asked 2
-> none
? find c2 t-5 a2
-> none
? find t-6 t-7 d
-> none
? party 2
-> none
-> none
> 1010 answer 3 d 200 OK
live 1 1 0 0
> 1020 answer 3 e 200 OK
plain to 1: ACK sip:e@127.0.0.1:5071, 1 ACK
ask 13 to 1: BYE sip:e@127.0.0.1:5071, 2 BYE
live 1 1 0 0
> 1030 answer 12 - 200 OK
live 1 1 0 0
> 1100 invite 1 4 erin@home.example sip:bob@home.example
reply 14: 100 Trying, 7 INVITE
ask 15 to 1: INVITE sip:bob@home.example, 1 INVITE
 Alert-Info: <urn:alert:service:call-waiting>
due 4 cap 1 at 181100
live 1 2 0 1
> 1200 cancel 14 1 c4 - a4 7
-> 4 caller
reply 16: 200 OK, 7 CANCEL
reply 14: 487 Request Terminated, 7 INVITE
live 1 1 0 0
> 1210 cancel 14 1 c4 - a4 7
-> none
> 1300 answer 15 - 100 Trying
ask 18 to 1: CANCEL sip:bob@home.example, 1 CANCEL
live 1 1 0 0
> 1400 answer 15 f 200 OK
plain to 1: ACK sip:f@127.0.0.1:5071, 1 ACK
ask 19 to 1: BYE sip:f@127.0.0.1:5071, 2 BYE
live 1 1 0 0
> 1500 over 15
live 1 1 0 0
> 1600 answer 15 g 200 OK
live 1 1 0 0
> 1700 due 4 cap 1
live 1 1 0 0
> 2000 say 1 t-2 t-3 b BYE 3
-> 1 callee
reply 20: 200 OK, 3 BYE
ask 21 to 1: BYE sip:caller@127.0.0.1:5071, 2 BYE
live 0 0 0 0
? rows
origin,3,3,200,,200,0,network-busy,486
terminating,2,3,200,,200,0,network-busy,486
origin,4,2,100,400,1000,0,ended,0
terminating,2,2,100,400,1000,0,ended,0
origin,4,4,1100,,1200,0,cancelled,487
terminating,2,4,1100,,1200,0,cancelled,487
origin,1,1,0,600,2000,0,ended,0
terminating,2,1,0,600,2000,0,ended,0
> 2100 invite 1 5 carol@home.example sip:bob@home.example
reply 22: 100 Trying, 7 INVITE
ask 23 to 1: INVITE sip:bob@home.example, 1 INVITE
due 5 cap 1 at 182100
live 0 1 1 0
> 2200 silent 23
reply 22: 408 Request Timeout, 7 INVITE
live 0 0 0 0
"#;

#[test]
fn together(rt: HostRuntime) {
    assert_right(&rt, "TOGETHER", wrong_call(rt.alloc(), TOGETHER));
}
