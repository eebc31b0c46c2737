//! Calls that were answered.
//!
//! A 2xx waits for its ACK (RFC 3261 §13.3.1.4), which is passed on, and again for each retransmission of the 2xx (§13.2.2.4).
//! A side leaves while the ACK of the other one is due (RFC 3261 §15).
//! A side of a stable call leaves, or sends another request (RFC 3261 §11.2, §12.2.2, §15.1).

use crate::asserting::assert_right;
use crate::call_tables::wrong_step;

const ANSWERED: &[u8] = br#"# what comes before the ACK, and an ACK of another number or side
> 0 invite 1 alice@home.example sip:bob@home.example
reply 0: 100 Trying, 7 INVITE
ask 1 to 1: INVITE sip:bob@home.example, 1 INVITE
 P-Asserted-Identity: <sip:alice@home.example>
due cap 1 at 180000
-> asked
> 200 answer 1 b 200 OK
reply 0: 200 OK, 7 INVITE
due no-ack 1 at 32200
-> answered caller
> 210 answer 1 b 200 OK
-> answered caller
> 220 cancel 0 7
reply 2: 200 OK, 7 CANCEL
-> answered caller
> 230 caller INVITE 8
reply 3: 491 Request Pending, 8 INVITE
-> answered caller
> 240 callee INVITE 1
reply 4: 491 Request Pending, 1 INVITE
-> answered caller
> 250 caller ACK 8
-> answered caller
> 260 callee ACK 7
-> answered caller
> 300 caller ACK 7
plain to 1: ACK sip:b@127.0.0.1:5071, 1 ACK
-> talking
> 310 caller ACK 7
-> talking
> 320 answer 1 b 200 OK
plain to 1: ACK sip:b@127.0.0.1:5071, 1 ACK
-> talking
> 32200 due no-ack 1
-> talking
# no ACK comes
> 0 invite 1 alice@home.example sip:bob@home.example
reply 0: 100 Trying, 7 INVITE
ask 1 to 1: INVITE sip:bob@home.example, 1 INVITE
 P-Asserted-Identity: <sip:alice@home.example>
due cap 1 at 180000
-> asked
> 200 answer 1 b 200 OK
reply 0: 200 OK, 7 INVITE
due no-ack 1 at 32200
-> answered caller
> 180000 due cap 1
-> answered caller
> 32200 due no-ack 1
plain to 1: ACK sip:b@127.0.0.1:5071, 1 ACK
ask 2 to 1: BYE sip:b@127.0.0.1:5071, 2 BYE
ask 3 to 1: BYE sip:caller@127.0.0.1:5071, 1 BYE
origin,1,1,0,200,32200,0,ended,0
terminating,2,1,0,200,32200,0,ended,0
-> over ended
# the caller leaves before its ACK
> 0 invite 1 alice@home.example sip:bob@home.example
reply 0: 100 Trying, 7 INVITE
ask 1 to 1: INVITE sip:bob@home.example, 1 INVITE
 P-Asserted-Identity: <sip:alice@home.example>
due cap 1 at 180000
-> asked
> 200 answer 1 b 200 OK
reply 0: 200 OK, 7 INVITE
due no-ack 1 at 32200
-> answered caller
> 300 caller BYE 8
reply 2: 200 OK, 8 BYE
plain to 1: ACK sip:b@127.0.0.1:5071, 1 ACK
ask 3 to 1: BYE sip:b@127.0.0.1:5071, 2 BYE
origin,1,1,0,200,300,0,ended,0
terminating,2,1,0,200,300,0,ended,0
-> over ended
> 400 caller ACK 7
-> over ended
# the target leaves before the caller's ACK, which comes
> 0 invite 1 alice@home.example sip:bob@home.example
reply 0: 100 Trying, 7 INVITE
ask 1 to 1: INVITE sip:bob@home.example, 1 INVITE
 P-Asserted-Identity: <sip:alice@home.example>
due cap 1 at 180000
-> asked
> 200 answer 1 b 200 OK
reply 0: 200 OK, 7 INVITE
due no-ack 1 at 32200
-> answered caller
> 300 callee BYE 1
reply 2: 200 OK, 1 BYE
-> parting caller
> 310 caller INVITE 8
reply 3: 491 Request Pending, 8 INVITE
-> parting caller
> 320 callee BYE 2
reply 4: 481 Call/Transaction Does Not Exist, 2 BYE
-> parting caller
> 330 caller ACK 8
-> parting caller
> 340 cancel 0 7
reply 5: 200 OK, 7 CANCEL
-> parting caller
> 400 caller ACK 7
ask 6 to 1: BYE sip:caller@127.0.0.1:5071, 1 BYE
origin,1,1,0,200,400,0,ended,0
terminating,2,1,0,200,400,0,ended,0
-> over ended
# which does not come
> 0 invite 1 alice@home.example sip:bob@home.example
reply 0: 100 Trying, 7 INVITE
ask 1 to 1: INVITE sip:bob@home.example, 1 INVITE
 P-Asserted-Identity: <sip:alice@home.example>
due cap 1 at 180000
-> asked
> 200 answer 1 b 200 OK
reply 0: 200 OK, 7 INVITE
due no-ack 1 at 32200
-> answered caller
> 300 callee BYE 1
reply 2: 200 OK, 1 BYE
-> parting caller
> 32200 due no-ack 1
ask 3 to 1: BYE sip:caller@127.0.0.1:5071, 1 BYE
origin,1,1,0,200,32200,0,ended,0
terminating,2,1,0,200,32200,0,ended,0
-> over ended
# in place of which the caller leaves too
> 0 invite 1 alice@home.example sip:bob@home.example
reply 0: 100 Trying, 7 INVITE
ask 1 to 1: INVITE sip:bob@home.example, 1 INVITE
 P-Asserted-Identity: <sip:alice@home.example>
due cap 1 at 180000
-> asked
> 200 answer 1 b 200 OK
reply 0: 200 OK, 7 INVITE
due no-ack 1 at 32200
-> answered caller
> 300 callee BYE 1
reply 2: 200 OK, 1 BYE
-> parting caller
> 400 caller BYE 8
reply 3: 200 OK, 8 BYE
origin,1,1,0,200,400,0,ended,0
terminating,2,1,0,200,400,0,ended,0
-> over ended
# the caller ends it
> 0 invite 1 alice@home.example sip:bob@home.example
reply 0: 100 Trying, 7 INVITE
ask 1 to 1: INVITE sip:bob@home.example, 1 INVITE
 P-Asserted-Identity: <sip:alice@home.example>
due cap 1 at 180000
-> asked
> 200 answer 1 b 200 OK
reply 0: 200 OK, 7 INVITE
due no-ack 1 at 32200
-> answered caller
> 300 caller ACK 7
plain to 1: ACK sip:b@127.0.0.1:5071, 1 ACK
-> talking
> 400 caller BYE 8|Reason: Q.850;cause=16|Subject: x|Foo: y
reply 2: 200 OK, 8 BYE
ask 3 to 1: BYE sip:b@127.0.0.1:5071, 2 BYE
 Reason: Q.850;cause=16
 Subject: x
origin,1,1,0,200,400,0,ended,0
terminating,2,1,0,200,400,0,ended,0
-> over ended
# the target ends it
> 0 invite 1 alice@home.example sip:bob@home.example
reply 0: 100 Trying, 7 INVITE
ask 1 to 1: INVITE sip:bob@home.example, 1 INVITE
 P-Asserted-Identity: <sip:alice@home.example>
due cap 1 at 180000
-> asked
> 200 answer 1 b 200 OK
reply 0: 200 OK, 7 INVITE
due no-ack 1 at 32200
-> answered caller
> 300 caller ACK 7
plain to 1: ACK sip:b@127.0.0.1:5071, 1 ACK
-> talking
> 400 callee BYE 1
reply 2: 200 OK, 1 BYE
ask 3 to 1: BYE sip:caller@127.0.0.1:5071, 1 BYE
origin,1,1,0,200,400,0,ended,0
terminating,2,1,0,200,400,0,ended,0
-> over ended
# what it is asked that is not for a call, or too late
> 0 invite 1 alice@home.example sip:bob@home.example
reply 0: 100 Trying, 7 INVITE
ask 1 to 1: INVITE sip:bob@home.example, 1 INVITE
 P-Asserted-Identity: <sip:alice@home.example>
due cap 1 at 180000
-> asked
> 200 answer 1 b 200 OK
reply 0: 200 OK, 7 INVITE
due no-ack 1 at 32200
-> answered caller
> 300 caller ACK 7
plain to 1: ACK sip:b@127.0.0.1:5071, 1 ACK
-> talking
> 400 caller OPTIONS 8
reply 2: 200 OK, 8 OPTIONS
 Allow: INVITE, ACK, CANCEL, BYE, OPTIONS, REGISTER, REFER
-> talking
> 410 caller REFER 9|Refer-To: <sip:vm@far.example>
reply 3: 403 Forbidden, 9 REFER
-> talking
> 420 callee REGISTER 10
reply 4: 481 Call/Transaction Does Not Exist, 10 REGISTER
-> talking
> 430 caller BYE 3
reply 5: 500 Server Internal Error, 3 BYE
-> talking
> 440 caller INVITE 3
reply 6: 500 Server Internal Error, 3 INVITE
-> talking
> 450 answer 1 b 180 Ringing
-> talking
> 460 answer 1 b 486 Busy Here
-> talking
"#;

#[test]
fn answered(rt: HostRuntime) {
    assert_right(&rt, "ANSWERED", wrong_step(rt.alloc(), ANSWERED));
}
