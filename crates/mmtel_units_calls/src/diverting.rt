//! Calls that are diverted before they reach the target (TS 24.604 §4.5.2.6).
//!
//! Diversions on arrival, and their rows: a diverted call is charged to the account that diverted it, from the answer on.
//! The bound on diversions counts those with which a call came.
//! What History-Info reveals to whom (RFC 7044 §10.1): marks for the caller are in a 181 alone, and those for targets in all that is passed on.

use crate::asserting::assert_right;
use crate::call_tables::wrong_step;

const DIVERTING: &[u8] = b"# to a busy target, and on from there
> record 2 divert always sip:carol@home.example
> record 3 divert busy sip:vm@far.example
> busy 3
> 0 invite 1 alice@home.example sip:bob@home.example
reply 0: 100 Trying, 7 INVITE
reply 0: 181 Call Is Being Forwarded, 7 INVITE
 History-Info: <sip:bob@home.example>;index=1
 History-Info: <sip:carol@home.example;cause=302>;index=1.1
reply 0: 181 Call Is Being Forwarded, 7 INVITE
 History-Info: <sip:bob@home.example>;index=1
 History-Info: <sip:carol@home.example;cause=302>;index=1.1
 History-Info: <sip:vm@far.example;cause=486>;index=1.1.1
ask 1 to 2: INVITE sip:vm@far.example;cause=486, 1 INVITE
 P-Asserted-Identity: <sip:alice@home.example>
 History-Info: <sip:bob@home.example>;index=1
 History-Info: <sip:carol@home.example;cause=302>;index=1.1
 History-Info: <sip:vm@far.example;cause=486>;index=1.1.1
due cap 1 at 180000
-> asked
> 200 answer 1 v 200 OK
reply 0: 200 OK, 7 INVITE
due no-ack 1 at 32200
-> answered caller
> 300 caller ACK 7
plain to 2: ACK sip:v@127.0.0.1:5072, 1 ACK
-> talking
> 400 caller BYE 8
reply 2: 200 OK, 8 BYE
ask 3 to 2: BYE sip:v@127.0.0.1:5072, 2 BYE
origin,1,1,0,200,400,0,ended,0
terminating,2,1,0,,400,0,ended,0
diversion,2,1,0,200,400,0,ended,0
terminating,3,1,0,,400,0,ended,0
diversion,3,1,0,200,400,0,ended,0
-> over ended
# not registered, with a rule for that; and the caller is not told
> away 2
> record 2 divert not-registered sip:vm@far.example untold
> 0 invite 1 alice@home.example sip:bob@home.example
reply 0: 100 Trying, 7 INVITE
ask 1 to 2: INVITE sip:vm@far.example;cause=404, 1 INVITE
 P-Asserted-Identity: <sip:alice@home.example>
 History-Info: <sip:bob@home.example>;index=1
 History-Info: <sip:vm@far.example;cause=404>;index=1.1
due cap 1 at 180000
-> asked
# to a number, which is one of the home domain's
> record 2 divert always tel:+4977
> 0 invite 1 alice@home.example sip:bob@home.example
reply 0: 100 Trying, 7 INVITE
reply 0: 181 Call Is Being Forwarded, 7 INVITE
 History-Info: <sip:bob@home.example>;index=1
 History-Info: <sip:+4977@home.example;user=phone;cause=302>;index=1.1
ask 1 to 1: INVITE sip:+4977@home.example;user=phone;cause=302, 1 INVITE
 P-Asserted-Identity: <sip:alice@home.example>
 History-Info: <sip:bob@home.example>;index=1
 History-Info: <sip:+4977@home.example;user=phone;cause=302>;index=1.1
due cap 1 at 180000
-> asked
# to where the diverting account may not call
> record 2 divert always sip:vm@far.example|bar-out sip:vm@far.example
> 0 invite 1 alice@home.example sip:bob@home.example
reply 0: 100 Trying, 7 INVITE
reply 0: 603 Decline, 7 INVITE
origin,1,1,0,,0,0,outgoing-barred,603
terminating,2,1,0,,0,0,outgoing-barred,603
-> over outgoing-barred
# a free user, and five diversions before
> record 2 divert always sip:vm@far.example
> 0 invite 1 alice@home.example sip:bob@home.example|History-Info: <sip:x0@far.example>;index=1, <sip:x1@far.example;cause=302>;index=1.1, <sip:x2@far.example;\
cause=302>;index=1.1.1, <sip:x3@far.example;cause=302>;index=1.1.1.1, <sip:x4@far.example;cause=302>;index=1.1.1.1.1, <sip:x5@far.example;cause=302>;index=1.1.1.1.1.1
reply 0: 100 Trying, 7 INVITE
reply 0: 480 Temporarily Unavailable, 7 INVITE
origin,1,1,0,,0,0,too-many-diversions,480
terminating,2,1,0,,0,0,too-many-diversions,480
-> over too-many-diversions
# a busy user, and five diversions before
> record 2 divert busy sip:vm@far.example
> busy 2
> 0 invite 1 alice@home.example sip:bob@home.example|History-Info: <sip:x0@far.example>;index=1, <sip:x1@far.example;cause=302>;index=1.1, <sip:x2@far.example;\
cause=302>;index=1.1.1, <sip:x3@far.example;cause=302>;index=1.1.1.1, <sip:x4@far.example;cause=302>;index=1.1.1.1.1, <sip:x5@far.example;cause=302>;index=1.1.1.1.1.1
reply 0: 100 Trying, 7 INVITE
reply 0: 486 Busy Here, 7 INVITE
origin,1,1,0,,0,0,too-many-diversions,486
terminating,2,1,0,,0,0,too-many-diversions,486
-> over too-many-diversions
# a free user, and four diversions before
> record 2 divert always sip:vm@far.example
> 0 invite 1 alice@home.example sip:bob@home.example|History-Info: <sip:x1@far.example;cause=302>;index=1, <sip:x2@far.example;cause=302>;index=1.1, \
<sip:x3@far.example;cause=302>;index=1.1.1, <sip:x4@far.example;cause=302>;index=1.1.1.1
reply 0: 100 Trying, 7 INVITE
reply 0: 181 Call Is Being Forwarded, 7 INVITE
 History-Info: <sip:x1@far.example;cause=302>;index=1
 History-Info: <sip:x2@far.example;cause=302>;index=1.1
 History-Info: <sip:x3@far.example;cause=302>;index=1.1.1
 History-Info: <sip:x4@far.example;cause=302>;index=1.1.1.1
 History-Info: <sip:vm@far.example;cause=302>;index=1.1.1.1.1
ask 1 to 2: INVITE sip:vm@far.example;cause=302, 1 INVITE
 P-Asserted-Identity: <sip:alice@home.example>
 History-Info: <sip:x1@far.example;cause=302>;index=1
 History-Info: <sip:x2@far.example;cause=302>;index=1.1
 History-Info: <sip:x3@far.example;cause=302>;index=1.1.1
 History-Info: <sip:x4@far.example;cause=302>;index=1.1.1.1
 History-Info: <sip:vm@far.example;cause=302>;index=1.1.1.1.1
due cap 1 at 180000
-> asked
# no diversion at all
> bound 0
> record 2 divert always sip:vm@far.example
> 0 invite 1 alice@home.example sip:bob@home.example
reply 0: 100 Trying, 7 INVITE
reply 0: 480 Temporarily Unavailable, 7 INVITE
origin,1,1,0,,0,0,too-many-diversions,480
terminating,2,1,0,,0,0,too-many-diversions,480
-> over too-many-diversions
# a user who diverts to himself
> record 2 divert always sip:bob@home.example
> 0 invite 1 alice@home.example sip:bob@home.example
reply 0: 100 Trying, 7 INVITE
reply 0: 181 Call Is Being Forwarded, 7 INVITE
 History-Info: <sip:bob@home.example>;index=1
 History-Info: <sip:bob@home.example;cause=302>;index=1.1
reply 0: 181 Call Is Being Forwarded, 7 INVITE
 History-Info: <sip:bob@home.example>;index=1
 History-Info: <sip:bob@home.example;cause=302>;index=1.1
 History-Info: <sip:bob@home.example;cause=302>;index=1.1.1
reply 0: 181 Call Is Being Forwarded, 7 INVITE
 History-Info: <sip:bob@home.example>;index=1
 History-Info: <sip:bob@home.example;cause=302>;index=1.1
 History-Info: <sip:bob@home.example;cause=302>;index=1.1.1
 History-Info: <sip:bob@home.example;cause=302>;index=1.1.1.1
reply 0: 181 Call Is Being Forwarded, 7 INVITE
 History-Info: <sip:bob@home.example>;index=1
 History-Info: <sip:bob@home.example;cause=302>;index=1.1
 History-Info: <sip:bob@home.example;cause=302>;index=1.1.1
 History-Info: <sip:bob@home.example;cause=302>;index=1.1.1.1
 History-Info: <sip:bob@home.example;cause=302>;index=1.1.1.1.1
reply 0: 181 Call Is Being Forwarded, 7 INVITE
 History-Info: <sip:bob@home.example>;index=1
 History-Info: <sip:bob@home.example;cause=302>;index=1.1
 History-Info: <sip:bob@home.example;cause=302>;index=1.1.1
 History-Info: <sip:bob@home.example;cause=302>;index=1.1.1.1
 History-Info: <sip:bob@home.example;cause=302>;index=1.1.1.1.1
 History-Info: <sip:bob@home.example;cause=302>;index=1.1.1.1.1.1
reply 0: 480 Temporarily Unavailable, 7 INVITE
origin,1,1,0,,0,0,too-many-diversions,480
terminating,2,1,0,,0,0,too-many-diversions,480
diversion,2,1,0,,0,0,too-many-diversions,480
terminating,2,1,0,,0,0,too-many-diversions,480
diversion,2,1,0,,0,0,too-many-diversions,480
terminating,2,1,0,,0,0,too-many-diversions,480
diversion,2,1,0,,0,0,too-many-diversions,480
terminating,2,1,0,,0,0,too-many-diversions,480
diversion,2,1,0,,0,0,too-many-diversions,480
terminating,2,1,0,,0,0,too-many-diversions,480
diversion,2,1,0,,0,0,too-many-diversions,480
terminating,2,1,0,,0,0,too-many-diversions,480
-> over too-many-diversions
# who diverted is not told to the caller, by the one diversion that it is of
> record 2 divert always sip:carol@home.example hides-diverting
> record 3 divert always sip:vm@far.example
> 0 invite 1 alice@home.example sip:bob@home.example
reply 0: 100 Trying, 7 INVITE
reply 0: 181 Call Is Being Forwarded, 7 INVITE
 History-Info: <sip:bob@home.example?Privacy=history>;index=1
 History-Info: <sip:carol@home.example;cause=302>;index=1.1
reply 0: 181 Call Is Being Forwarded, 7 INVITE
 History-Info: <sip:bob@home.example>;index=1
 History-Info: <sip:carol@home.example;cause=302>;index=1.1
 History-Info: <sip:vm@far.example;cause=302>;index=1.1.1
ask 1 to 2: INVITE sip:vm@far.example;cause=302, 1 INVITE
 P-Asserted-Identity: <sip:alice@home.example>
 History-Info: <sip:bob@home.example>;index=1
 History-Info: <sip:carol@home.example;cause=302>;index=1.1
 History-Info: <sip:vm@far.example;cause=302>;index=1.1.1
due cap 1 at 180000
-> asked
# where to is not told to the caller, also in a 181 of the target's own
> record 2 divert always sip:vm@far.example hides-target
> 0 invite 1 alice@home.example sip:bob@home.example
reply 0: 100 Trying, 7 INVITE
reply 0: 181 Call Is Being Forwarded, 7 INVITE
 History-Info: <sip:bob@home.example>;index=1
 History-Info: <sip:vm@far.example;cause=302?Privacy=history>;index=1.1
ask 1 to 2: INVITE sip:vm@far.example;cause=302, 1 INVITE
 P-Asserted-Identity: <sip:alice@home.example>
 History-Info: <sip:bob@home.example>;index=1
 History-Info: <sip:vm@far.example;cause=302>;index=1.1
due cap 1 at 180000
-> asked
> 100 answer 1 v 181 Forwarded Again|History-Info: <sip:v2@far.example>;index=7
reply 0: 181 Forwarded Again, 7 INVITE
 History-Info: <sip:bob@home.example>;index=1
 History-Info: <sip:vm@far.example;cause=302?Privacy=history>;index=1.1
-> ringing
# who diverted is hidden from the target, which is not of the trust domain
> record 2 divert always sip:vm@far.example hides-from-target
> 0 invite 1 alice@home.example sip:bob@home.example
reply 0: 100 Trying, 7 INVITE
reply 0: 181 Call Is Being Forwarded, 7 INVITE
 History-Info: <sip:bob@home.example?Privacy=history>;index=1
 History-Info: <sip:vm@far.example;cause=302>;index=1.1
ask 1 to 2: INVITE sip:vm@far.example;cause=302, 1 INVITE
 P-Asserted-Identity: <sip:alice@home.example>
 History-Info: <sip:anonymous@anonymous.invalid>;index=1
 History-Info: <sip:vm@far.example;cause=302>;index=1.1
due cap 1 at 180000
-> asked
# the caller hides all of it, on each attempt
> record 2 divert always sip:carol@home.example
> record 3 divert no-answer sip:vm@far.example
> 0 invite 1 alice@home.example sip:bob@home.example|Privacy: history
reply 0: 100 Trying, 7 INVITE
reply 0: 181 Call Is Being Forwarded, 7 INVITE
 History-Info: <sip:bob@home.example>;index=1
 History-Info: <sip:carol@home.example;cause=302>;index=1.1
ask 1 to 1: INVITE sip:carol@home.example;cause=302, 1 INVITE
 P-Asserted-Identity: <sip:alice@home.example>
 Privacy: history
 History-Info: <sip:bob@home.example>;index=1
 History-Info: <sip:carol@home.example;cause=302>;index=1.1
due cap 1 at 180000
-> asked
> 100 answer 1 c 180 Ringing
reply 0: 180 Ringing, 7 INVITE
due no-reply 1 at 20100
-> ringing
> 20100 due no-reply 1
ask 2 to 1: CANCEL sip:carol@home.example;cause=302, 1 CANCEL
reply 0: 181 Call Is Being Forwarded, 7 INVITE
 History-Info: <sip:bob@home.example>;index=1
 History-Info: <sip:carol@home.example;cause=302>;index=1.1
 History-Info: <sip:vm@far.example;cause=408>;index=1.1.1
ask 3 to 2: INVITE sip:vm@far.example;cause=408, 1 INVITE
 P-Asserted-Identity: <sip:alice@home.example>
 History-Info: <sip:anonymous@anonymous.invalid>;index=1
 History-Info: <sip:anonymous@anonymous.invalid;cause=302>;index=1.1
 History-Info: <sip:anonymous@anonymous.invalid;cause=408>;index=1.1.1
due cap 2 at 200100
-> asked, loose 1
> 20200 answer 3 v 200 OK
reply 0: 200 OK, 7 INVITE
due no-ack 1 at 52200
-> answered caller, loose 1
> 20300 caller ACK 7
plain to 2: ACK sip:v@127.0.0.1:5072, 1 ACK
-> talking, loose 1
> 21000 caller INVITE 8
reply 4: 100 Trying, 8 INVITE
ask 5 to 2: INVITE sip:v@127.0.0.1:5072, 2 INVITE
 History-Info: <sip:anonymous@anonymous.invalid>;index=1
 History-Info: <sip:anonymous@anonymous.invalid;cause=302>;index=1.1
 History-Info: <sip:anonymous@anonymous.invalid;cause=408>;index=1.1.1
-> asking caller, loose 1
";

#[test]
fn diverting(rt: HostRuntime) {
    assert_right(&rt, "DIVERTING", wrong_step(rt.alloc(), DIVERTING));
}
