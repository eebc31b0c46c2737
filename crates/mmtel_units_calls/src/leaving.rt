//! INVITEs other than the one for which a call waits.
//!
//! Late responses to an INVITE that was abandoned: after a provisional response its CANCEL is sent, each dialog of a 2xx has ACK and BYE, and a final from 300, a timeout or the
//! end of its transaction ends it (RFC 3261 §9.1, §13.2.2.4).
//! The ACK of a 2xx of the early dialog without a Contact goes to the target of the provisional response, received before the INVITE was abandoned or after it; one of another tag
//! goes to that of the INVITE (RFC 3261 §12.1.2, §13.2.2.4).
//! A further dialog of an INVITE that was answered has ACK and BYE at once (RFC 3261 §13.2.2.4).

use crate::asserting::assert_right;
use crate::call_tables::wrong_step;

const LEAVING: &[u8] =
    br#"# 2xx first, of two dialogs, each heard twice, and a provisional response then
> 0 invite 1 alice@home.example sip:bob@home.example
reply 0: 100 Trying, 7 INVITE
ask 1 to 1: INVITE sip:bob@home.example, 1 INVITE
 P-Asserted-Identity: <sip:alice@home.example>
due cap 1 at 180000
-> asked
> 100 cancel 0 7
reply 2: 200 OK, 7 CANCEL
reply 0: 487 Request Terminated, 7 INVITE
origin,1,1,0,,100,0,cancelled,487
terminating,2,1,0,,100,0,cancelled,487
-> over cancelled, loose 1
> 200 answer 1 b 200 OK
plain to 1: ACK sip:b@127.0.0.1:5071, 1 ACK
ask 3 to 1: BYE sip:b@127.0.0.1:5071, 2 BYE
-> over cancelled, loose 1
> 250 answer 1 b 200 OK
plain to 1: ACK sip:b@127.0.0.1:5071, 1 ACK
-> over cancelled, loose 1
> 260 answer 1 c 200 OK
plain to 1: ACK sip:c@127.0.0.1:5071, 1 ACK
ask 4 to 1: BYE sip:c@127.0.0.1:5071, 2 BYE
-> over cancelled, loose 1
> 270 answer 1 c 200 OK
plain to 1: ACK sip:c@127.0.0.1:5071, 1 ACK
-> over cancelled, loose 1
> 280 answer 1 b 180 Ringing
ask 5 to 1: CANCEL sip:bob@home.example, 1 CANCEL
-> over cancelled, loose 1
> 290 answer 1 b 180 Ringing
-> over cancelled, loose 1
> 300 answer 1 d 486 Busy Here
ack 1: ACK sip:bob@home.example, 1 ACK
-> over cancelled
> 310 answer 1 b 200 OK
-> over cancelled
# silence
> 0 invite 1 alice@home.example sip:bob@home.example
reply 0: 100 Trying, 7 INVITE
ask 1 to 1: INVITE sip:bob@home.example, 1 INVITE
 P-Asserted-Identity: <sip:alice@home.example>
due cap 1 at 180000
-> asked
> 100 cancel 0 7
reply 2: 200 OK, 7 CANCEL
reply 0: 487 Request Terminated, 7 INVITE
origin,1,1,0,,100,0,cancelled,487
terminating,2,1,0,,100,0,cancelled,487
-> over cancelled, loose 1
> 32000 silent 1
-> over cancelled
> 32002 answer 1 b 200 OK
-> over cancelled
# the end of its transaction; and the transaction of another request, which is none of it
> 0 invite 1 alice@home.example sip:bob@home.example
reply 0: 100 Trying, 7 INVITE
ask 1 to 1: INVITE sip:bob@home.example, 1 INVITE
 P-Asserted-Identity: <sip:alice@home.example>
due cap 1 at 180000
-> asked
> 100 answer 1 b 180 Ringing
reply 0: 180 Ringing, 7 INVITE
-> ringing
> 150 cancel 0 7
reply 2: 200 OK, 7 CANCEL
reply 0: 487 Request Terminated, 7 INVITE
ask 3 to 1: CANCEL sip:bob@home.example, 1 CANCEL
origin,1,1,0,,150,0,cancelled,487
terminating,2,1,0,,150,0,cancelled,487
-> over cancelled, loose 1
> 160 answer 3 - 200 OK
-> over cancelled, loose 1
> 4150 silent 3
-> over cancelled, loose 1
> 4160 ended 3
-> over cancelled, loose 1
> 40000 ended 1
-> over cancelled
# a target that was left answers after all, while the next one rings
> record 2 divert no-answer sip:vm@far.example
> 0 invite 1 alice@home.example sip:bob@home.example
reply 0: 100 Trying, 7 INVITE
ask 1 to 1: INVITE sip:bob@home.example, 1 INVITE
 P-Asserted-Identity: <sip:alice@home.example>
due cap 1 at 180000
-> asked
> 100 answer 1 b 180 Ringing
reply 0: 180 Ringing, 7 INVITE
due no-reply 1 at 20100
-> ringing
> 20100 due no-reply 1
ask 2 to 1: CANCEL sip:bob@home.example, 1 CANCEL
reply 0: 181 Call Is Being Forwarded, 7 INVITE
 History-Info: <sip:bob@home.example>;index=1
 History-Info: <sip:vm@far.example;cause=408>;index=1.1
ask 3 to 2: INVITE sip:vm@far.example;cause=408, 1 INVITE
 P-Asserted-Identity: <sip:alice@home.example>
 History-Info: <sip:bob@home.example>;index=1
 History-Info: <sip:vm@far.example;cause=408>;index=1.1
due cap 2 at 200100
-> asked, loose 1
> 20150 answer 1 b 180 Ringing
-> asked, loose 1
> 20200 answer 1 b 200 OK
plain to 1: ACK sip:b@127.0.0.1:5071, 1 ACK
ask 4 to 1: BYE sip:b@127.0.0.1:5071, 2 BYE
-> asked, loose 1
> 20300 answer 3 v 180 Ringing
reply 0: 180 Ringing, 7 INVITE
-> ringing, loose 1
> 20400 answer 3 v 200 OK
reply 0: 200 OK, 7 INVITE
due no-ack 1 at 52400
-> answered caller, loose 1
> 20500 answer 1 c 200 OK
plain to 1: ACK sip:c@127.0.0.1:5071, 1 ACK
ask 5 to 1: BYE sip:c@127.0.0.1:5071, 2 BYE
-> answered caller, loose 1
> 20600 caller BYE 8
reply 6: 200 OK, 8 BYE
plain to 2: ACK sip:v@127.0.0.1:5072, 1 ACK
ask 7 to 2: BYE sip:v@127.0.0.1:5072, 2 BYE
origin,1,1,0,20400,20600,0,ended,0
terminating,2,1,0,,20600,0,ended,0
diversion,2,1,20100,20400,20600,0,ended,0
-> over ended, loose 1
# left after it rang, and one that was answered by another dialog than the early one
> 0 invite 1 alice@home.example sip:bob@home.example
reply 0: 100 Trying, 7 INVITE
ask 1 to 1: INVITE sip:bob@home.example, 1 INVITE
 P-Asserted-Identity: <sip:alice@home.example>
due cap 1 at 180000
-> asked
> 50 answer 1 b 180 Ringing
reply 0: 180 Ringing, 7 INVITE
-> ringing
> 100 cancel 0 7
reply 2: 200 OK, 7 CANCEL
reply 0: 487 Request Terminated, 7 INVITE
ask 3 to 1: CANCEL sip:bob@home.example, 1 CANCEL
origin,1,1,0,,100,0,cancelled,487
terminating,2,1,0,,100,0,cancelled,487
-> over cancelled, loose 1
> 200 answer 1 =b 200 OK
plain to 1: ACK sip:b@127.0.0.1:5071, 1 ACK
ask 4 to 1: BYE sip:b@127.0.0.1:5071, 2 BYE
-> over cancelled, loose 1
> 210 answer 1 =c 200 OK
plain to 1: ACK sip:bob@home.example, 1 ACK
ask 5 to 1: BYE sip:bob@home.example, 2 BYE
-> over cancelled, loose 1
# rings once it was left
> 0 invite 1 alice@home.example sip:bob@home.example
reply 0: 100 Trying, 7 INVITE
ask 1 to 1: INVITE sip:bob@home.example, 1 INVITE
 P-Asserted-Identity: <sip:alice@home.example>
due cap 1 at 180000
-> asked
> 100 cancel 0 7
reply 2: 200 OK, 7 CANCEL
reply 0: 487 Request Terminated, 7 INVITE
origin,1,1,0,,100,0,cancelled,487
terminating,2,1,0,,100,0,cancelled,487
-> over cancelled, loose 1
> 150 answer 1 b 180 Ringing
ask 3 to 1: CANCEL sip:bob@home.example, 1 CANCEL
-> over cancelled, loose 1
> 200 answer 1 =b 200 OK
plain to 1: ACK sip:b@127.0.0.1:5071, 1 ACK
ask 4 to 1: BYE sip:b@127.0.0.1:5071, 2 BYE
-> over cancelled, loose 1
# answered by another dialog
> 0 invite 1 alice@home.example sip:bob@home.example
reply 0: 100 Trying, 7 INVITE
ask 1 to 1: INVITE sip:bob@home.example, 1 INVITE
 P-Asserted-Identity: <sip:alice@home.example>
due cap 1 at 180000
-> asked
> 50 answer 1 b 180 Ringing
reply 0: 180 Ringing, 7 INVITE
-> ringing
> 200 answer 1 c 200 OK
reply 0: 200 OK, 7 INVITE
due no-ack 1 at 32200
-> answered caller
> 250 answer 1 =b 200 OK
plain to 1: ACK sip:b@127.0.0.1:5071, 1 ACK
ask 2 to 1: BYE sip:b@127.0.0.1:5071, 2 BYE
-> answered caller
# another dialog of the INVITE that was answered, before its ACK and after, and once the call is over
> 0 invite 1 alice@home.example sip:bob@home.example
reply 0: 100 Trying, 7 INVITE
ask 1 to 1: INVITE sip:bob@home.example, 1 INVITE
 P-Asserted-Identity: <sip:alice@home.example>
due cap 1 at 180000
-> asked
> 200 answer 1 b 200 OK
reply 0: 200 OK, 7 INVITE
due no-ack 1 at 32200
-> answered caller
> 250 answer 1 c 200 OK
plain to 1: ACK sip:c@127.0.0.1:5071, 1 ACK
ask 2 to 1: BYE sip:c@127.0.0.1:5071, 2 BYE
-> answered caller
> 300 caller ACK 7
plain to 1: ACK sip:b@127.0.0.1:5071, 1 ACK
-> talking
> 400 answer 1 d 200 OK
plain to 1: ACK sip:d@127.0.0.1:5071, 1 ACK
ask 3 to 1: BYE sip:d@127.0.0.1:5071, 2 BYE
-> talking
> 410 answer 1 d 200 OK
plain to 1: ACK sip:d@127.0.0.1:5071, 1 ACK
-> talking
> 420 answer 1 b 200 OK
plain to 1: ACK sip:b@127.0.0.1:5071, 1 ACK
-> talking
> 500 caller BYE 8
reply 4: 200 OK, 8 BYE
ask 5 to 1: BYE sip:b@127.0.0.1:5071, 2 BYE
origin,1,1,0,200,500,0,ended,0
terminating,2,1,0,200,500,0,ended,0
-> over ended
> 600 answer 1 e 200 OK
plain to 1: ACK sip:e@127.0.0.1:5071, 1 ACK
ask 6 to 1: BYE sip:e@127.0.0.1:5071, 2 BYE
-> over ended
> 610 answer 1 b 200 OK
-> over ended
> 40000 ended 1
-> over ended
> 40010 answer 1 f 200 OK
-> over ended
"#;

#[test]
fn leaving(rt: HostRuntime) {
    assert_right(&rt, "LEAVING", wrong_step(rt.alloc(), LEAVING));
}
