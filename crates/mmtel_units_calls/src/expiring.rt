//! Sessions that are not refreshed (RFC 4028 §10).
//!
//! The expiry of the last 2xx counts; it ends a stable call, and one in which an INVITE has no final response.

use crate::asserting::assert_right;
use crate::call_tables::wrong_step;

const EXPIRING: &[u8] = br#"# it ends a call that talks, and nothing else does
> timer
> 0 invite 1 alice@home.example sip:bob@home.example|Session-Expires: 1800|Supported: timer, foo
reply 0: 100 Trying, 7 INVITE
ask 1 to 1: INVITE sip:bob@home.example, 1 INVITE
 P-Asserted-Identity: <sip:alice@home.example>
 Session-Expires: 1800
 Supported: timer
due cap 1 at 180000
-> asked
> 100 answer 1 b 180 Ringing|Session-Expires: 90
reply 0: 180 Ringing, 7 INVITE
 Session-Expires: 90
-> ringing
> 200 answer 1 b 200 OK|Session-Expires: 100;refresher=uac|Min-SE: 95|Require: timer
reply 0: 200 OK, 7 INVITE
 Session-Expires: 100;refresher=uac
 Min-SE: 95
 Require: timer
due no-ack 1 at 32200
due expired 1 at 100200
-> answered caller
> 250 due expired 1
-> answered caller
> 300 caller ACK 7
plain to 1: ACK sip:b@127.0.0.1:5071, 1 ACK
-> talking
> 400 due expired 0
-> talking
> 500 due expired 2
-> talking
> 600 due no-ack 1
-> talking
> 100200 due expired 1
ask 2 to 1: BYE sip:caller@127.0.0.1:5071, 1 BYE
ask 3 to 1: BYE sip:b@127.0.0.1:5071, 2 BYE
origin,1,1,0,200,100200,0,ended,0
terminating,2,1,0,200,100200,0,ended,0
-> over ended
> 100300 due expired 1
-> over ended
# that of an earlier 2xx is superseded, also by one that sets none; 90 seconds are the least
> timer
> 0 invite 1 alice@home.example sip:bob@home.example
reply 0: 100 Trying, 7 INVITE
ask 1 to 1: INVITE sip:bob@home.example, 1 INVITE
 P-Asserted-Identity: <sip:alice@home.example>
due cap 1 at 180000
-> asked
> 200 answer 1 b 200 OK|Session-Expires: 30
reply 0: 200 OK, 7 INVITE
 Session-Expires: 30
due no-ack 1 at 32200
due expired 1 at 90200
-> answered caller
> 300 caller ACK 7
plain to 1: ACK sip:b@127.0.0.1:5071, 1 ACK
-> talking
> 1000 caller INVITE 8
reply 2: 100 Trying, 8 INVITE
ask 3 to 1: INVITE sip:b@127.0.0.1:5071, 2 INVITE
-> asking caller
> 1010 answer 3 - 200 OK|Session-Expires: 90;refresher=me
reply 2: 200 OK, 8 INVITE
 Session-Expires: 90;refresher=me
due no-ack 2 at 33010
-> answered caller
> 1020 caller ACK 8
plain to 1: ACK sip:b@127.0.0.1:5071, 2 ACK
-> talking
> 90200 due expired 1
-> talking
# it ends a call in which an INVITE has no answer, with 487 to that; a late 2xx has its ACK alone
> timer
> 0 invite 1 alice@home.example sip:bob@home.example
reply 0: 100 Trying, 7 INVITE
ask 1 to 1: INVITE sip:bob@home.example, 1 INVITE
 P-Asserted-Identity: <sip:alice@home.example>
due cap 1 at 180000
-> asked
> 200 answer 1 b 200 OK|Session-Expires: 90
reply 0: 200 OK, 7 INVITE
 Session-Expires: 90
due no-ack 1 at 32200
due expired 1 at 90200
-> answered caller
> 300 caller ACK 7
plain to 1: ACK sip:b@127.0.0.1:5071, 1 ACK
-> talking
> 90000 caller INVITE 8
reply 2: 100 Trying, 8 INVITE
ask 3 to 1: INVITE sip:b@127.0.0.1:5071, 2 INVITE
-> asking caller
> 90200 due expired 1
reply 2: 487 Request Terminated, 8 INVITE
ask 4 to 1: BYE sip:caller@127.0.0.1:5071, 1 BYE
ask 5 to 1: BYE sip:b@127.0.0.1:5071, 3 BYE
origin,1,1,0,200,90200,0,ended,0
terminating,2,1,0,200,90200,0,ended,0
-> over ended, loose 1
> 90210 answer 3 - 200 OK
plain to 1: ACK sip:b@127.0.0.1:5071, 2 ACK
-> over ended, loose 1
"#;

#[test]
fn expiring(rt: HostRuntime) {
    assert_right(&rt, "EXPIRING", wrong_step(rt.alloc(), EXPIRING));
}
