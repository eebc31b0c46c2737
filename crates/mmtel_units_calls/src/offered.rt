//! Calls that are offered to a target and have no final response.
//!
//! Provisional responses and the answer (RFC 3261 §13.2.2).
//! Finals from 300 and timeouts (RFC 3261 §13.2.2.3, TS 24.604 §4.5.2.6).
//! The no-reply time, and the maximum time (RFC 3261 §9.1, TS 24.604 §4.5.2.6).
//! The caller abandons the call (RFC 3261 §9.2, §15.1.2).
//! Requests in dialogs that are not confirmed (RFC 3261 §12.2.2, §14.2).

use crate::asserting::assert_right;
use crate::call_tables::wrong_step;

const OFFERED: &[u8] = br#"# the target tries, rings and answers
> 0 invite 1 alice@home.example sip:bob@home.example
reply 0: 100 Trying, 7 INVITE
ask 1 to 1: INVITE sip:bob@home.example, 1 INVITE
 P-Asserted-Identity: <sip:alice@home.example>
due cap 1 at 180000
-> asked
> 10 answer 1 - 100 Trying
-> asked
> 50 answer 1 b 199 Early Dialog Terminated
reply 0: 199 Early Dialog Terminated, 7 INVITE
-> asked
> 100 answer 1 b 180 Ringing
reply 0: 180 Ringing, 7 INVITE
-> ringing
> 150 answer 1 c 199 Early Dialog Terminated
reply 0: 199 Early Dialog Terminated, 7 INVITE
-> ringing
> 160 answer 1 - 100 Trying
-> ringing
> 200 answer 1 b 200 OK
reply 0: 200 OK, 7 INVITE
due no-ack 1 at 32200
-> answered caller
# another dialog answers than the one that rang, which then has no more to say
> 0 invite 1 alice@home.example sip:bob@home.example
reply 0: 100 Trying, 7 INVITE
ask 1 to 1: INVITE sip:bob@home.example, 1 INVITE
 P-Asserted-Identity: <sip:alice@home.example>
due cap 1 at 180000
-> asked
> 100 answer 1 b 180 Ringing
reply 0: 180 Ringing, 7 INVITE
-> ringing
> 200 answer 1 c 200 OK
reply 0: 200 OK, 7 INVITE
due no-ack 1 at 32200
-> answered caller
> 300 caller ACK 7
plain to 1: ACK sip:c@127.0.0.1:5071, 1 ACK
-> talking
> 310 answer 1 b 200 OK
plain to 1: ACK sip:b@127.0.0.1:5071, 1 ACK
ask 2 to 1: BYE sip:b@127.0.0.1:5071, 2 BYE
-> talking
# it answers at once, and the lines that nobody is to see do not go on
> 0 invite 1 alice@home.example sip:bob@home.example
reply 0: 100 Trying, 7 INVITE
ask 1 to 1: INVITE sip:bob@home.example, 1 INVITE
 P-Asserted-Identity: <sip:alice@home.example>
due cap 1 at 180000
-> asked
> 200 answer 1 b 200 On The Way|Content-Type: application/sdp|Server: S|Require: 100rel|X-Odd: 1|=v=0|=m=audio 5004 RTP/AVP 8
reply 0: 200 On The Way, 7 INVITE
 Content-Type: application/sdp
 Server: S
 =v=0
 =m=audio 5004 RTP/AVP 8
due no-ack 1 at 32200
-> answered caller
# busy, without a rule
> 0 invite 1 alice@home.example sip:bob@home.example
reply 0: 100 Trying, 7 INVITE
ask 1 to 1: INVITE sip:bob@home.example, 1 INVITE
 P-Asserted-Identity: <sip:alice@home.example>
due cap 1 at 180000
-> asked
> 100 answer 1 b 180 Ringing
reply 0: 180 Ringing, 7 INVITE
-> ringing
> 300 answer 1 b 486 Busy Here|Retry-After: 60
ack 1: ACK sip:bob@home.example, 1 ACK
reply 0: 486 Busy Here, 7 INVITE
 Retry-After: 60
origin,1,1,0,,300,0,relayed,486
terminating,2,1,0,,300,0,relayed,486
-> over relayed
# busy everywhere, with a rule
> record 2 divert busy sip:vm@far.example
> 0 invite 1 alice@home.example sip:bob@home.example
reply 0: 100 Trying, 7 INVITE
ask 1 to 1: INVITE sip:bob@home.example, 1 INVITE
 P-Asserted-Identity: <sip:alice@home.example>
due cap 1 at 180000
-> asked
> 300 answer 1 b 600 Busy Everywhere
ack 1: ACK sip:bob@home.example, 1 ACK
reply 0: 181 Call Is Being Forwarded, 7 INVITE
 History-Info: <sip:bob@home.example>;index=1
 History-Info: <sip:vm@far.example;cause=486>;index=1.1
ask 2 to 2: INVITE sip:vm@far.example;cause=486, 1 INVITE
 P-Asserted-Identity: <sip:alice@home.example>
 History-Info: <sip:bob@home.example>;index=1
 History-Info: <sip:vm@far.example;cause=486>;index=1.1
due cap 2 at 180300
-> asked
> 400 answer 2 v 603 Decline
ack 2: ACK sip:vm@far.example;cause=486, 1 ACK
reply 0: 603 Decline, 7 INVITE
origin,1,1,0,,400,0,relayed,603
terminating,2,1,0,,400,0,relayed,603
diversion,2,1,300,,400,0,relayed,603
-> over relayed
# out of reach before it rang, with a rule
> record 2 divert not-reachable sip:vm@far.example
> 0 invite 1 alice@home.example sip:bob@home.example
reply 0: 100 Trying, 7 INVITE
ask 1 to 1: INVITE sip:bob@home.example, 1 INVITE
 P-Asserted-Identity: <sip:alice@home.example>
due cap 1 at 180000
-> asked
> 50 answer 1 b 503 No
ack 1: ACK sip:bob@home.example, 1 ACK
reply 0: 181 Call Is Being Forwarded, 7 INVITE
 History-Info: <sip:bob@home.example>;index=1
 History-Info: <sip:vm@far.example;cause=503>;index=1.1
ask 2 to 2: INVITE sip:vm@far.example;cause=503, 1 INVITE
 P-Asserted-Identity: <sip:alice@home.example>
 History-Info: <sip:bob@home.example>;index=1
 History-Info: <sip:vm@far.example;cause=503>;index=1.1
due cap 2 at 180050
-> asked
# the same without one
> 0 invite 1 alice@home.example sip:bob@home.example
reply 0: 100 Trying, 7 INVITE
ask 1 to 1: INVITE sip:bob@home.example, 1 INVITE
 P-Asserted-Identity: <sip:alice@home.example>
due cap 1 at 180000
-> asked
> 50 answer 1 b 503 No
ack 1: ACK sip:bob@home.example, 1 ACK
reply 0: 503 No, 7 INVITE
origin,1,1,0,,50,0,unreachable,503
terminating,2,1,0,,50,0,unreachable,503
-> over unreachable
# out of reach once it rang, which is any other final
> record 2 divert not-reachable sip:vm@far.example
> 0 invite 1 alice@home.example sip:bob@home.example
reply 0: 100 Trying, 7 INVITE
ask 1 to 1: INVITE sip:bob@home.example, 1 INVITE
 P-Asserted-Identity: <sip:alice@home.example>
due cap 1 at 180000
-> asked
> 100 answer 1 b 180 Ringing
reply 0: 180 Ringing, 7 INVITE
-> ringing
> 150 answer 1 b 503 No
ack 1: ACK sip:bob@home.example, 1 ACK
reply 0: 503 No, 7 INVITE
origin,1,1,0,,150,0,relayed,503
terminating,2,1,0,,150,0,relayed,503
-> over relayed
# deflected before it rang
> record 2 deflect
> 0 invite 1 alice@home.example sip:bob@home.example
reply 0: 100 Trying, 7 INVITE
ask 1 to 1: INVITE sip:bob@home.example, 1 INVITE
 P-Asserted-Identity: <sip:alice@home.example>
due cap 1 at 180000
-> asked
> 100 answer 1 b 302 Moved|Contact: <sip:vm@far.example>
ack 1: ACK sip:bob@home.example, 1 ACK
reply 0: 181 Call Is Being Forwarded, 7 INVITE
 History-Info: <sip:bob@home.example>;index=1
 History-Info: <sip:vm@far.example;cause=480>;index=1.1
ask 2 to 2: INVITE sip:vm@far.example;cause=480, 1 INVITE
 P-Asserted-Identity: <sip:alice@home.example>
 History-Info: <sip:bob@home.example>;index=1
 History-Info: <sip:vm@far.example;cause=480>;index=1.1
due cap 2 at 180100
-> asked
# and after
> record 2 deflect
> 0 invite 1 alice@home.example sip:bob@home.example
reply 0: 100 Trying, 7 INVITE
ask 1 to 1: INVITE sip:bob@home.example, 1 INVITE
 P-Asserted-Identity: <sip:alice@home.example>
due cap 1 at 180000
-> asked
> 100 answer 1 b 180 Ringing
reply 0: 180 Ringing, 7 INVITE
-> ringing
> 150 answer 1 b 302 Moved|Contact: <sip:vm@far.example>
ack 1: ACK sip:bob@home.example, 1 ACK
reply 0: 181 Call Is Being Forwarded, 7 INVITE
 History-Info: <sip:bob@home.example>;index=1
 History-Info: <sip:vm@far.example;cause=487>;index=1.1
ask 2 to 2: INVITE sip:vm@far.example;cause=487, 1 INVITE
 P-Asserted-Identity: <sip:alice@home.example>
 History-Info: <sip:bob@home.example>;index=1
 History-Info: <sip:vm@far.example;cause=487>;index=1.1
due cap 2 at 180150
-> asked
# no account is there that might let it deflect
> 0 invite 1 alice@home.example sip:bob@far.example
reply 0: 100 Trying, 7 INVITE
ask 1 to 2: INVITE sip:bob@far.example, 1 INVITE
 P-Asserted-Identity: <sip:alice@home.example>
due cap 1 at 180000
-> asked
> 100 answer 1 b 302 Moved|Contact: <sip:vm@far.example>
ack 1: ACK sip:bob@far.example, 1 ACK
reply 0: 480 Temporarily Unavailable, 7 INVITE
origin,1,1,0,,100,0,relayed,480
-> over relayed
# the account does not
> record 2 divert busy sip:vm@far.example
> 0 invite 1 alice@home.example sip:bob@home.example
reply 0: 100 Trying, 7 INVITE
ask 1 to 1: INVITE sip:bob@home.example, 1 INVITE
 P-Asserted-Identity: <sip:alice@home.example>
due cap 1 at 180000
-> asked
> 100 answer 1 b 302 Moved|Contact: <sip:vm@far.example>
ack 1: ACK sip:bob@home.example, 1 ACK
reply 0: 480 Temporarily Unavailable, 7 INVITE
origin,1,1,0,,100,0,relayed,480
terminating,2,1,0,,100,0,relayed,480
-> over relayed
# silence, with a rule
> record 2 divert not-reachable sip:vm@far.example
> 0 invite 1 alice@home.example sip:bob@home.example
reply 0: 100 Trying, 7 INVITE
ask 1 to 1: INVITE sip:bob@home.example, 1 INVITE
 P-Asserted-Identity: <sip:alice@home.example>
due cap 1 at 180000
-> asked
> 32000 silent 1
reply 0: 181 Call Is Being Forwarded, 7 INVITE
 History-Info: <sip:bob@home.example>;index=1
 History-Info: <sip:vm@far.example;cause=503>;index=1.1
ask 2 to 2: INVITE sip:vm@far.example;cause=503, 1 INVITE
 P-Asserted-Identity: <sip:alice@home.example>
 History-Info: <sip:bob@home.example>;index=1
 History-Info: <sip:vm@far.example;cause=503>;index=1.1
due cap 2 at 212000
-> asked
# and without one
> 0 invite 1 alice@home.example sip:bob@home.example
reply 0: 100 Trying, 7 INVITE
ask 1 to 1: INVITE sip:bob@home.example, 1 INVITE
 P-Asserted-Identity: <sip:alice@home.example>
due cap 1 at 180000
-> asked
> 32000 silent 1
reply 0: 408 Request Timeout, 7 INVITE
origin,1,1,0,,32000,0,unreachable,408
terminating,2,1,0,,32000,0,unreachable,408
-> over unreachable
# no answer in time: the record counts as it stood when the call came, and each deadline is of its attempt alone
> record 2 divert no-answer sip:vm@far.example
> 0 invite 1 alice@home.example sip:bob@home.example
reply 0: 100 Trying, 7 INVITE
ask 1 to 1: INVITE sip:bob@home.example, 1 INVITE
 P-Asserted-Identity: <sip:alice@home.example>
due cap 1 at 180000
-> asked
> 50 answer 1 b 199 Early Dialog Terminated
reply 0: 199 Early Dialog Terminated, 7 INVITE
-> asked
> 100 answer 1 b 180 Ringing
reply 0: 180 Ringing, 7 INVITE
due no-reply 1 at 20100
-> ringing
> 200 answer 1 b 183 Session Progress
reply 0: 183 Session Progress, 7 INVITE
-> ringing
> record 2
> 20100 due no-reply 1
ask 2 to 1: CANCEL sip:bob@home.example, 1 CANCEL
reply 0: 181 Call Is Being Forwarded, 7 INVITE
 History-Info: <sip:bob@home.example>;index=1
 History-Info: <sip:vm@far.example;cause=408>;index=1.1
ask 3 to 2: INVITE sip:vm@far.example;cause=408, 1 INVITE
 P-Asserted-Identity: <sip:alice@home.example>
 History-Info: <sip:bob@home.example>;index=1
 History-Info: <sip:vm@far.example;cause=408>;index=1.1
due cap 2 at 200100
-> asked, loose 1
> 20150 due no-reply 1
-> asked, loose 1
> 180000 due cap 1
-> asked, loose 1
> 180100 answer 1 b 487 Request Terminated
ack 1: ACK sip:bob@home.example, 1 ACK
-> asked
> 180200 answer 3 v 100 Trying
-> asked
> 200100 due cap 2
ask 4 to 2: CANCEL sip:vm@far.example;cause=408, 1 CANCEL
reply 0: 408 Request Timeout, 7 INVITE
origin,1,1,0,,200100,0,unreachable,408
terminating,2,1,0,,200100,0,unreachable,408
diversion,2,1,20100,,200100,0,unreachable,408
-> over unreachable, loose 1
# the longest time, and it tried
> 0 invite 1 alice@home.example sip:bob@home.example
reply 0: 100 Trying, 7 INVITE
ask 1 to 1: INVITE sip:bob@home.example, 1 INVITE
 P-Asserted-Identity: <sip:alice@home.example>
due cap 1 at 180000
-> asked
> 50 answer 1 - 100 Trying
-> asked
> 180000 due cap 1
ask 2 to 1: CANCEL sip:bob@home.example, 1 CANCEL
reply 0: 408 Request Timeout, 7 INVITE
origin,1,1,0,,180000,0,unreachable,408
terminating,2,1,0,,180000,0,unreachable,408
-> over unreachable, loose 1
# it rang
> 0 invite 1 alice@home.example sip:bob@home.example
reply 0: 100 Trying, 7 INVITE
ask 1 to 1: INVITE sip:bob@home.example, 1 INVITE
 P-Asserted-Identity: <sip:alice@home.example>
due cap 1 at 180000
-> asked
> 100 answer 1 b 180 Ringing
reply 0: 180 Ringing, 7 INVITE
-> ringing
> 180000 due cap 1
ask 2 to 1: CANCEL sip:bob@home.example, 1 CANCEL
reply 0: 480 Temporarily Unavailable, 7 INVITE
origin,1,1,0,,180000,0,no-reply,480
terminating,2,1,0,,180000,0,no-reply,480
-> over no-reply, loose 1
# nothing came from it, so nothing can be cancelled
> 0 invite 1 alice@home.example sip:bob@home.example
reply 0: 100 Trying, 7 INVITE
ask 1 to 1: INVITE sip:bob@home.example, 1 INVITE
 P-Asserted-Identity: <sip:alice@home.example>
due cap 1 at 180000
-> asked
> 180000 due cap 1
reply 0: 408 Request Timeout, 7 INVITE
origin,1,1,0,,180000,0,unreachable,408
terminating,2,1,0,,180000,0,unreachable,408
-> over unreachable, loose 1
# CANCEL while it rings
> 0 invite 1 alice@home.example sip:bob@home.example
reply 0: 100 Trying, 7 INVITE
ask 1 to 1: INVITE sip:bob@home.example, 1 INVITE
 P-Asserted-Identity: <sip:alice@home.example>
due cap 1 at 180000
-> asked
> 100 answer 1 b 180 Ringing
reply 0: 180 Ringing, 7 INVITE
-> ringing
> 150 cancel 0 7
reply 2: 200 OK, 7 CANCEL
reply 0: 487 Request Terminated, 7 INVITE
ask 3 to 1: CANCEL sip:bob@home.example, 1 CANCEL
origin,1,1,0,,150,0,cancelled,487
terminating,2,1,0,,150,0,cancelled,487
-> over cancelled, loose 1
> 160 answer 1 b 487 Request Terminated
ack 1: ACK sip:bob@home.example, 1 ACK
-> over cancelled
> 170 caller BYE 8
-> over cancelled
# BYE while it rings
> 0 invite 1 alice@home.example sip:bob@home.example
reply 0: 100 Trying, 7 INVITE
ask 1 to 1: INVITE sip:bob@home.example, 1 INVITE
 P-Asserted-Identity: <sip:alice@home.example>
due cap 1 at 180000
-> asked
> 100 answer 1 b 180 Ringing
reply 0: 180 Ringing, 7 INVITE
-> ringing
> 150 caller BYE 8
reply 2: 200 OK, 8 BYE
reply 0: 487 Request Terminated, 7 INVITE
ask 3 to 1: CANCEL sip:bob@home.example, 1 CANCEL
origin,1,1,0,,150,0,cancelled,487
terminating,2,1,0,,150,0,cancelled,487
-> over cancelled, loose 1
# BYE before anything came back
> 0 invite 1 alice@home.example sip:bob@home.example
reply 0: 100 Trying, 7 INVITE
ask 1 to 1: INVITE sip:bob@home.example, 1 INVITE
 P-Asserted-Identity: <sip:alice@home.example>
due cap 1 at 180000
-> asked
> 50 caller BYE 8
reply 2: 200 OK, 8 BYE
reply 0: 487 Request Terminated, 7 INVITE
origin,1,1,0,,50,0,cancelled,487
terminating,2,1,0,,50,0,cancelled,487
-> over cancelled, loose 1
# requests while it rings
> 0 invite 1 alice@home.example sip:bob@home.example
reply 0: 100 Trying, 7 INVITE
ask 1 to 1: INVITE sip:bob@home.example, 1 INVITE
 P-Asserted-Identity: <sip:alice@home.example>
due cap 1 at 180000
-> asked
> 100 answer 1 b 180 Ringing
reply 0: 180 Ringing, 7 INVITE
-> ringing
> 110 callee BYE 5
reply 2: 481 Call/Transaction Does Not Exist, 5 BYE
-> ringing
> 120 caller INVITE 8
reply 3: 500 Server Internal Error, 8 INVITE
 Retry-After: 5
-> ringing
> 130 callee INVITE 6
reply 4: 491 Request Pending, 6 INVITE
-> ringing
> 135 cancel 3 8
reply 5: 200 OK, 8 CANCEL
-> ringing
> 140 caller INVITE 6
reply 6: 500 Server Internal Error, 6 INVITE
-> ringing
> 150 caller OPTIONS 9
reply 7: 200 OK, 9 OPTIONS
 Allow: INVITE, ACK, CANCEL, BYE, OPTIONS, REGISTER, REFER
-> ringing
> 160 caller REFER 10
reply 8: 403 Forbidden, 10 REFER
-> ringing
> 170 caller ACK 7
-> ringing
> 180 callee BYE 4
reply 9: 500 Server Internal Error, 4 BYE
-> ringing
# a reliable answer goes on as any other; PRACK and SUBSCRIBE are of no use in a call; no PRACK is missed and no session has a time
> 0 invite 1 alice@home.example sip:bob@home.example
reply 0: 100 Trying, 7 INVITE
ask 1 to 1: INVITE sip:bob@home.example, 1 INVITE
 P-Asserted-Identity: <sip:alice@home.example>
due cap 1 at 180000
-> asked
> 20 due no-prack 1
-> asked
> 30 due expired 1
-> asked
> 100 answer 1 b 180 Ringing|Require: 100rel|RSeq: 900
reply 0: 180 Ringing, 7 INVITE
-> ringing
> 110 caller PRACK 9|RAck: 1 7 INVITE
reply 2: 481 Call/Transaction Does Not Exist, 9 PRACK
-> ringing
> 130 caller SUBSCRIBE 10
reply 3: 481 Call/Transaction Does Not Exist, 10 SUBSCRIBE
-> ringing
> 140 due no-prack 1
-> ringing
> 150 due expired 1
-> ringing
> 200 answer 1 b 200 OK|Session-Expires: 90
reply 0: 200 OK, 7 INVITE
due no-ack 1 at 32200
-> answered caller
> 220 due no-prack 1
-> answered caller
> 230 due expired 1
-> answered caller
> 300 caller ACK 7
plain to 1: ACK sip:b@127.0.0.1:5071, 1 ACK
-> talking
> 320 callee PRACK 7
reply 4: 400 Bad Request, 7 PRACK
-> talking
> 330 due no-prack 1
-> talking
> 90200 due expired 0
-> talking
"#;

#[test]
fn offered(rt: HostRuntime) {
    assert_right(&rt, "OFFERED", wrong_step(rt.alloc(), OFFERED));
}
