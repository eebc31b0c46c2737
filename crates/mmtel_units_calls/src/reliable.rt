//! Reliable provisional responses (RFC 3262) and UPDATE (RFC 3311).
//!
//! A response has a number of the server's own and waits for its PRACK, which is relayed with the target's; a request in flight gets its final before a step that leaves the
//! attempt, or the call.

use crate::asserting::assert_right;
use crate::call_tables::wrong_step;
use crate::tables_of_calls::wrong_call;

const RELIABLE: &[u8] =
    br#"# the answer has a number of the server's own, its PRACK that of the target; only the first PRACK of it goes on, and none once the call is answered
> reliable
> 0 invite 1 alice@home.example sip:bob@home.example|Supported: foo, 100rel
reply 0: 100 Trying, 7 INVITE
ask 1 to 1: INVITE sip:bob@home.example, 1 INVITE
 P-Asserted-Identity: <sip:alice@home.example>
 Supported: 100rel
due cap 1 at 180000
-> asked
> 100 answer 1 b 183 Session Progress|Require: 100rel|RSeq: 900|Server: S
reply 0: 183 Session Progress, 7 INVITE
 Server: S
 Require: 100rel
 RSeq: 1
due no-prack 1 at 32100
-> ringing
> 700 caller PRACK 8|RAck: 1 7 INVITE
settled 0 1
ask 3 to 1: PRACK sip:b@127.0.0.1:5071, 2 PRACK
 RAck: 900 1 INVITE
-> ringing
> 710 answer 3 - 100 Trying
-> ringing
> 750 answer 3 - 200 OK
reply 2: 200 OK, 8 PRACK
-> ringing
> 760 answer 3 - 200 OK
-> ringing
> 800 caller PRACK 9|RAck: 1 7 INVITE
reply 4: 481 Call/Transaction Does Not Exist, 9 PRACK
-> ringing
> 810 caller PRACK 10|RAck: 1 INVITE
reply 5: 400 Bad Request, 10 PRACK
-> ringing
> 820 caller PRACK 11
reply 6: 400 Bad Request, 11 PRACK
-> ringing
> 830 callee PRACK 1|RAck: 900 1 INVITE
reply 7: 481 Call/Transaction Does Not Exist, 1 PRACK
-> ringing
> 840 answer 1 b 180 Ringing|Require: 100rel|RSeq: 901
reply 0: 180 Ringing, 7 INVITE
 Require: 100rel
 RSeq: 2
due no-prack 2 at 32840
-> ringing
> 32100 due no-prack 1
-> ringing
> 32200 answer 1 b 200 OK
reply 0: 200 OK, 7 INVITE
due no-ack 1 at 64200
-> answered caller
> 32300 caller PRACK 12|RAck: 2 7 INVITE
reply 8: 481 Call/Transaction Does Not Exist, 12 PRACK
-> answered caller
> 32840 due no-prack 2
-> answered caller
> 33000 caller ACK 7
plain to 1: ACK sip:b@127.0.0.1:5071, 1 ACK
-> talking
> 33100 callee PRACK 2|RAck: 2 7 INVITE
reply 9: 481 Call/Transaction Does Not Exist, 2 PRACK
-> talking
> 34000 caller BYE 13
reply 10: 200 OK, 13 BYE
ask 11 to 1: BYE sip:b@127.0.0.1:5071, 3 BYE
origin,1,1,0,32200,34000,0,ended,0
terminating,2,1,0,32200,34000,0,ended,0
-> over ended
# nobody acknowledges the answer: 500, and the target has a CANCEL; of two the PRACK is of the one that has waited longest
> reliable
> 0 invite 1 alice@home.example sip:bob@home.example|Require: 100rel
reply 0: 100 Trying, 7 INVITE
ask 1 to 1: INVITE sip:bob@home.example, 1 INVITE
 P-Asserted-Identity: <sip:alice@home.example>
 Require: 100rel
due cap 1 at 180000
-> asked
> 100 answer 1 b 180 Ringing|Require: 100rel|RSeq: 5
reply 0: 180 Ringing, 7 INVITE
 Require: 100rel
 RSeq: 1
due no-prack 1 at 32100
-> ringing
> 200 answer 1 b 180 Ringing|Require: 100rel|RSeq: 6
reply 0: 180 Ringing, 7 INVITE
 Require: 100rel
 RSeq: 2
due no-prack 2 at 32200
-> ringing
> 300 caller PRACK 8|RAck: 2 7 INVITE
reply 2: 481 Call/Transaction Does Not Exist, 8 PRACK
-> ringing
> 310 caller PRACK 9|RAck: 1 8 INVITE
reply 3: 481 Call/Transaction Does Not Exist, 9 PRACK
-> ringing
> 320 caller PRACK 10|RAck: 1 7 UPDATE
reply 4: 481 Call/Transaction Does Not Exist, 10 PRACK
-> ringing
> 32100 due no-prack 1
settled 0
reply 0: 500 Server Internal Error, 7 INVITE
ask 5 to 1: CANCEL sip:bob@home.example, 1 CANCEL
origin,1,1,0,,32100,0,unacknowledged,500
terminating,2,1,0,,32100,0,unacknowledged,500
-> over unacknowledged, loose 1
> 32200 due no-prack 2
-> over unacknowledged, loose 1
# an answer without a tag, one without a number from 1 to 2147483647, and one that requires nothing, go on as any other
> reliable
> 0 invite 1 alice@home.example sip:bob@home.example|Supported: 100rel
reply 0: 100 Trying, 7 INVITE
ask 1 to 1: INVITE sip:bob@home.example, 1 INVITE
 P-Asserted-Identity: <sip:alice@home.example>
 Supported: 100rel
due cap 1 at 180000
-> asked
> 40 answer 1 b 100 Trying|Require: 100rel|RSeq: 1
-> asked
> 50 answer 1 - 183 Session Progress|Require: 100rel|RSeq: 1
reply 0: 183 Session Progress, 7 INVITE
-> ringing
> 60 answer 1 b 183 Session Progress|Require: 100rel|RSeq: 0
reply 0: 183 Session Progress, 7 INVITE
-> ringing
> 70 answer 1 b 183 Session Progress|Require: 100rel|RSeq: 2147483648
reply 0: 183 Session Progress, 7 INVITE
-> ringing
> 80 answer 1 b 183 Session Progress|Require: 100rel
reply 0: 183 Session Progress, 7 INVITE
-> ringing
> 90 answer 1 b 183 Session Progress|RSeq: 8
reply 0: 183 Session Progress, 7 INVITE
-> ringing
> 100 answer 1 b 183 Session Progress|Require: 100rel|RSeq: 2147483647
reply 0: 183 Session Progress, 7 INVITE
 Require: 100rel
 RSeq: 1
due no-prack 1 at 32100
-> ringing
# a caller that does not know them gets none
> reliable
> 0 invite 1 alice@home.example sip:bob@home.example|Supported: foo
reply 0: 100 Trying, 7 INVITE
ask 1 to 1: INVITE sip:bob@home.example, 1 INVITE
 P-Asserted-Identity: <sip:alice@home.example>
due cap 1 at 180000
-> asked
> 100 answer 1 b 183 Session Progress|Require: 100rel|RSeq: 900
reply 0: 183 Session Progress, 7 INVITE
-> ringing
# where they are not switched on nobody learns of them
> 0 invite 1 alice@home.example sip:bob@home.example|Supported: 100rel
reply 0: 100 Trying, 7 INVITE
ask 1 to 1: INVITE sip:bob@home.example, 1 INVITE
 P-Asserted-Identity: <sip:alice@home.example>
due cap 1 at 180000
-> asked
> 100 answer 1 b 183 Session Progress|Require: 100rel|RSeq: 900
reply 0: 183 Session Progress, 7 INVITE
-> ringing
# an answer out of order and one of another dialog do not go on, and do not ring; a diversion answers the PRACK first; own numbers go on, and a late 2xx too
> reliable
> record 2 divert no-answer sip:vm@far.example
> 0 invite 1 alice@home.example sip:bob@home.example|Supported: 100rel
reply 0: 100 Trying, 7 INVITE
ask 1 to 1: INVITE sip:bob@home.example, 1 INVITE
 P-Asserted-Identity: <sip:alice@home.example>
 Supported: 100rel
due cap 1 at 180000
-> asked
> 100 answer 1 b 199 Early Dialog Terminated|Require: 100rel|RSeq: 900
reply 0: 199 Early Dialog Terminated, 7 INVITE
 Require: 100rel
 RSeq: 1
due no-prack 1 at 32100
-> asked
> 110 answer 1 b 180 Ringing|Require: 100rel|RSeq: 902
-> asked
> 120 answer 1 c 180 Ringing|Require: 100rel|RSeq: 901
-> asked
> 130 answer 1 b 180 Ringing|Require: 100rel|RSeq: 901
reply 0: 180 Ringing, 7 INVITE
 Require: 100rel
 RSeq: 2
due no-reply 1 at 20130
due no-prack 2 at 32130
-> ringing
> 200 caller PRACK 8|RAck: 1 7 INVITE
settled 0 1
ask 3 to 1: PRACK sip:b@127.0.0.1:5071, 2 PRACK
 RAck: 900 1 INVITE
-> ringing
> 20130 due no-reply 1
reply 2: 481 Call/Transaction Does Not Exist, 8 PRACK
settled 0
ask 4 to 1: CANCEL sip:bob@home.example, 1 CANCEL
reply 0: 181 Call Is Being Forwarded, 7 INVITE
 History-Info: <sip:bob@home.example>;index=1
 History-Info: <sip:vm@far.example;cause=408>;index=1.1
ask 5 to 2: INVITE sip:vm@far.example;cause=408, 1 INVITE
 P-Asserted-Identity: <sip:alice@home.example>
 History-Info: <sip:bob@home.example>;index=1
 History-Info: <sip:vm@far.example;cause=408>;index=1.1
 Supported: 100rel
due cap 2 at 200130
-> asked, loose 1
> 20200 answer 5 v 183 Session Progress|Require: 100rel|RSeq: 7
reply 0: 183 Session Progress, 7 INVITE
 Require: 100rel
 RSeq: 3
due no-prack 3 at 52200
-> ringing, loose 1
> 20300 caller PRACK 9|RAck: 2 7 INVITE
reply 6: 481 Call/Transaction Does Not Exist, 9 PRACK
-> ringing, loose 1
> 20310 caller PRACK 10|RAck: 3 7 INVITE
settled 0 3
ask 8 to 2: PRACK sip:v@127.0.0.1:5072, 2 PRACK
 RAck: 7 1 INVITE
-> ringing, loose 1
> 20320 answer 3 - 200 OK
-> ringing, loose 1
> 20330 answer 8 - 200 OK
reply 7: 200 OK, 10 PRACK
-> ringing, loose 1
> 20340 answer 1 b 200 OK
plain to 1: ACK sip:b@127.0.0.1:5071, 1 ACK
ask 9 to 1: BYE sip:b@127.0.0.1:5071, 3 BYE
-> ringing, loose 1
> 20350 answer 1 c 200 OK
plain to 1: ACK sip:c@127.0.0.1:5071, 1 ACK
ask 10 to 1: BYE sip:c@127.0.0.1:5071, 2 BYE
-> ringing, loose 1
> 32130 due no-prack 2
-> ringing, loose 1
# a final that comes before that of the PRACK: 481, ACK and the final
> reliable
> 0 invite 1 alice@home.example sip:bob@home.example|Supported: 100rel
reply 0: 100 Trying, 7 INVITE
ask 1 to 1: INVITE sip:bob@home.example, 1 INVITE
 P-Asserted-Identity: <sip:alice@home.example>
 Supported: 100rel
due cap 1 at 180000
-> asked
> 100 answer 1 b 180 Ringing|Require: 100rel|RSeq: 5
reply 0: 180 Ringing, 7 INVITE
 Require: 100rel
 RSeq: 1
due no-prack 1 at 32100
-> ringing
> 200 caller PRACK 8|RAck: 1 7 INVITE
settled 0 1
ask 3 to 1: PRACK sip:b@127.0.0.1:5071, 2 PRACK
 RAck: 5 1 INVITE
-> ringing
> 300 answer 1 b 486 Busy Here
reply 2: 481 Call/Transaction Does Not Exist, 8 PRACK
settled 0
ack 1: ACK sip:bob@home.example, 1 ACK
reply 0: 486 Busy Here, 7 INVITE
origin,1,1,0,,300,0,relayed,486
terminating,2,1,0,,300,0,relayed,486
-> over relayed
# a 2xx does not: the PRACK has its own final
> reliable
> 0 invite 1 alice@home.example sip:bob@home.example|Supported: 100rel
reply 0: 100 Trying, 7 INVITE
ask 1 to 1: INVITE sip:bob@home.example, 1 INVITE
 P-Asserted-Identity: <sip:alice@home.example>
 Supported: 100rel
due cap 1 at 180000
-> asked
> 100 answer 1 b 180 Ringing|Require: 100rel|RSeq: 5
reply 0: 180 Ringing, 7 INVITE
 Require: 100rel
 RSeq: 1
due no-prack 1 at 32100
-> ringing
> 110 answer 1 b 180 Ringing|Require: 100rel|RSeq: 6
reply 0: 180 Ringing, 7 INVITE
 Require: 100rel
 RSeq: 2
due no-prack 2 at 32110
-> ringing
> 200 caller PRACK 8|RAck: 1 7 INVITE
settled 0 1
ask 3 to 1: PRACK sip:b@127.0.0.1:5071, 2 PRACK
 RAck: 5 1 INVITE
-> ringing
> 210 caller PRACK 9|RAck: 2 7 INVITE
settled 0 2
ask 5 to 1: PRACK sip:b@127.0.0.1:5071, 3 PRACK
 RAck: 6 1 INVITE
-> ringing
> 300 answer 1 b 200 OK
reply 0: 200 OK, 7 INVITE
due no-ack 1 at 32300
-> answered caller
> 310 answer 5 - 200 OK
reply 4: 200 OK, 9 PRACK
-> answered caller
> 32200 silent 3
reply 2: 408 Request Timeout, 8 PRACK
-> answered caller
"#;

const UPDATES: &[u8] =
    br#"# while it rings in an early dialog, one at a time; the BYE of the caller answers it first
> reliable
> 0 invite 1 alice@home.example sip:bob@home.example
reply 0: 100 Trying, 7 INVITE
ask 1 to 1: INVITE sip:bob@home.example, 1 INVITE
 P-Asserted-Identity: <sip:alice@home.example>
due cap 1 at 180000
-> asked
> 10 caller UPDATE 8
reply 2: 500 Server Internal Error, 8 UPDATE
 Retry-After: 5
-> asked
> 50 answer 1 - 180 Ringing
reply 0: 180 Ringing, 7 INVITE
-> ringing
> 60 callee UPDATE 1
reply 3: 500 Server Internal Error, 1 UPDATE
 Retry-After: 5
-> ringing
> 100 answer 1 b 180 Ringing
reply 0: 180 Ringing, 7 INVITE
-> ringing
> 110 caller UPDATE 9|Content-Type: application/sdp|=v=0
ask 5 to 1: UPDATE sip:b@127.0.0.1:5071, 2 UPDATE
 Content-Type: application/sdp
 =v=0
-> ringing
> 120 caller UPDATE 10
reply 6: 500 Server Internal Error, 10 UPDATE
 Retry-After: 5
-> ringing
> 130 callee UPDATE 2
reply 7: 491 Request Pending, 2 UPDATE
-> ringing
> 140 answer 5 - 200 OK|Content-Type: application/sdp|=v=1
reply 4: 200 OK, 9 UPDATE
 Content-Type: application/sdp
 =v=1
-> ringing
> 150 callee UPDATE 3
ask 9 to 1: UPDATE sip:caller@127.0.0.1:5071, 1 UPDATE
-> ringing
> 160 callee UPDATE 4
reply 10: 500 Server Internal Error, 4 UPDATE
 Retry-After: 5
-> ringing
> 170 caller UPDATE 11
reply 11: 491 Request Pending, 11 UPDATE
-> ringing
> 180 answer 9 - 488 Not Acceptable Here
reply 8: 488 Not Acceptable Here, 3 UPDATE
-> ringing
> 190 callee UPDATE 5
ask 13 to 1: UPDATE sip:caller@127.0.0.1:5071, 2 UPDATE
-> ringing
> 200 caller BYE 12
reply 12: 487 Request Terminated, 5 UPDATE
settled 0
reply 14: 200 OK, 12 BYE
reply 0: 487 Request Terminated, 7 INVITE
ask 15 to 1: CANCEL sip:bob@home.example, 1 CANCEL
origin,1,1,0,,200,0,cancelled,487
terminating,2,1,0,,200,0,cancelled,487
-> over cancelled, loose 1
> 210 answer 13 - 200 OK
-> over cancelled, loose 1
> 220 answer 1 b 200 OK
plain to 1: ACK sip:b@127.0.0.1:5071, 1 ACK
ask 16 to 1: BYE sip:b@127.0.0.1:5071, 3 BYE
-> over cancelled, loose 1
# a PRACK and an UPDATE in flight: the PRACK is answered first
> reliable
> 0 invite 1 alice@home.example sip:bob@home.example|Supported: 100rel
reply 0: 100 Trying, 7 INVITE
ask 1 to 1: INVITE sip:bob@home.example, 1 INVITE
 P-Asserted-Identity: <sip:alice@home.example>
 Supported: 100rel
due cap 1 at 180000
-> asked
> 100 answer 1 b 180 Ringing|Require: 100rel|RSeq: 5
reply 0: 180 Ringing, 7 INVITE
 Require: 100rel
 RSeq: 1
due no-prack 1 at 32100
-> ringing
> 110 caller UPDATE 8
ask 3 to 1: UPDATE sip:b@127.0.0.1:5071, 2 UPDATE
-> ringing
> 120 caller PRACK 9|RAck: 1 7 INVITE
settled 0 1
ask 5 to 1: PRACK sip:b@127.0.0.1:5071, 3 PRACK
 RAck: 5 1 INVITE
-> ringing
> 130 cancel 0 7
reply 4: 481 Call/Transaction Does Not Exist, 9 PRACK
reply 2: 487 Request Terminated, 8 UPDATE
settled 0
reply 6: 200 OK, 7 CANCEL
reply 0: 487 Request Terminated, 7 INVITE
ask 7 to 1: CANCEL sip:bob@home.example, 1 CANCEL
origin,1,1,0,,130,0,cancelled,487
terminating,2,1,0,,130,0,cancelled,487
-> over cancelled, loose 1
# in a talking call: its offer counts as a hold, and no answer of it ends the call; an INVITE beside it goes on, and knows no reliable answers
> reliable
> 0 invite 1 alice@home.example sip:bob@home.example|Supported: 100rel
reply 0: 100 Trying, 7 INVITE
ask 1 to 1: INVITE sip:bob@home.example, 1 INVITE
 P-Asserted-Identity: <sip:alice@home.example>
 Supported: 100rel
due cap 1 at 180000
-> asked
> 200 answer 1 b 200 OK
reply 0: 200 OK, 7 INVITE
due no-ack 1 at 32200
-> answered caller
> 250 caller UPDATE 8
reply 2: 491 Request Pending, 8 UPDATE
-> answered caller
> 300 caller ACK 7
plain to 1: ACK sip:b@127.0.0.1:5071, 1 ACK
-> talking
> 1000 caller UPDATE 9|Content-Type: application/sdp|=v=0|=m=audio 5004 RTP/AVP 8|=a=sendonly
ask 4 to 1: UPDATE sip:b@127.0.0.1:5071, 2 UPDATE
 Content-Type: application/sdp
 =v=0
 =m=audio 5004 RTP/AVP 8
 =a=sendonly
-> talking
> 1010 answer 4 - 200 OK
reply 3: 200 OK, 9 UPDATE
-> talking
> 1100 callee UPDATE 1|Content-Type: application/sdp|=v=0|=m=audio 5004 RTP/AVP 8|=a=inactive
ask 6 to 1: UPDATE sip:caller@127.0.0.1:5071, 1 UPDATE
 Content-Type: application/sdp
 =v=0
 =m=audio 5004 RTP/AVP 8
 =a=inactive
-> talking
> 1110 answer 6 - 481 Call/Transaction Does Not Exist
reply 5: 481 Call/Transaction Does Not Exist, 1 UPDATE
-> talking
> 1200 callee UPDATE 2
ask 8 to 1: UPDATE sip:caller@127.0.0.1:5071, 2 UPDATE
-> talking
> 1210 callee UPDATE 1
reply 9: 500 Server Internal Error, 1 UPDATE
-> talking
> 33200 silent 8
reply 7: 408 Request Timeout, 2 UPDATE
-> talking
> 33300 caller UPDATE 10
ask 11 to 1: UPDATE sip:b@127.0.0.1:5071, 3 UPDATE
-> talking
> 33310 callee INVITE 3|Supported: 100rel, foo
reply 12: 100 Trying, 3 INVITE
ask 13 to 1: INVITE sip:caller@127.0.0.1:5071, 3 INVITE
-> asking callee
> 33320 callee UPDATE 4
reply 14: 491 Request Pending, 4 UPDATE
-> asking callee
> 33330 answer 11 - 200 OK
reply 10: 200 OK, 10 UPDATE
-> asking callee
> 33340 answer 13 - 488 Not Acceptable Here
ack 13: ACK sip:caller@127.0.0.1:5071, 3 ACK
reply 12: 488 Not Acceptable Here, 3 INVITE
-> talking
> 33400 caller UPDATE 11
ask 16 to 1: UPDATE sip:b@127.0.0.1:5071, 4 UPDATE
-> talking
> 33410 callee BYE 5
reply 15: 487 Request Terminated, 11 UPDATE
reply 17: 200 OK, 5 BYE
ask 18 to 1: BYE sip:caller@127.0.0.1:5071, 4 BYE
origin,1,1,0,200,33410,1,ended,0
terminating,2,1,0,200,33410,1,ended,0
-> over ended
> 33420 answer 16 - 200 OK
-> over ended
# its 2xx says when the session expires, and a PRACK's does not; the end of the session answers it
> reliable
> timer
> 0 invite 1 alice@home.example sip:bob@home.example|Supported: 100rel, timer
reply 0: 100 Trying, 7 INVITE
ask 1 to 1: INVITE sip:bob@home.example, 1 INVITE
 P-Asserted-Identity: <sip:alice@home.example>
 Supported: 100rel
 Supported: timer
due cap 1 at 180000
-> asked
> 100 answer 1 b 180 Ringing|Require: timer, 100rel|RSeq: 5
reply 0: 180 Ringing, 7 INVITE
 Require: timer
 Require: 100rel
 RSeq: 1
due no-prack 1 at 32100
-> ringing
> 110 caller PRACK 8|RAck: 1 7 INVITE
settled 0 1
ask 3 to 1: PRACK sip:b@127.0.0.1:5071, 2 PRACK
 RAck: 5 1 INVITE
-> ringing
> 120 answer 3 - 200 OK|Session-Expires: 100
reply 2: 200 OK, 8 PRACK
 Session-Expires: 100
-> ringing
> 200 answer 1 b 200 OK|Session-Expires: 90
reply 0: 200 OK, 7 INVITE
 Session-Expires: 90
due no-ack 1 at 32200
due expired 1 at 90200
-> answered caller
> 300 caller ACK 7
plain to 1: ACK sip:b@127.0.0.1:5071, 1 ACK
-> talking
> 1000 callee UPDATE 1|Session-Expires: 1800|Supported: timer
ask 5 to 1: UPDATE sip:caller@127.0.0.1:5071, 1 UPDATE
 Session-Expires: 1800
 Supported: timer
-> talking
> 1010 answer 5 - 200 OK|Session-Expires: 100;refresher=uac
reply 4: 200 OK, 1 UPDATE
 Session-Expires: 100;refresher=uac
due expired 2 at 101010
-> talking
> 90200 due expired 1
-> talking
> 101000 callee UPDATE 2
ask 7 to 1: UPDATE sip:caller@127.0.0.1:5071, 2 UPDATE
-> talking
> 101010 due expired 2
reply 6: 487 Request Terminated, 2 UPDATE
ask 8 to 1: BYE sip:caller@127.0.0.1:5071, 3 BYE
ask 9 to 1: BYE sip:b@127.0.0.1:5071, 3 BYE
origin,1,1,0,200,101010,0,ended,0
terminating,2,1,0,200,101010,0,ended,0
-> over ended
"#;

/// Of two calls each has its own UPDATE in flight: a response to it, and its timeout, are of the call whose request it was, by the branch alone.
const TWO_CALLS: &[u8] = br#"> 0 invite 1 1 alice@home.example sip:bob@home.example
reply 0: 100 Trying, 7 INVITE
ask 1 to 1: INVITE sip:bob@home.example, 1 INVITE
due 1 cap 1 at 180000
live 1 1 0 0
> 10 invite 1 2 erin@home.example sip:carol@home.example
reply 2: 100 Trying, 7 INVITE
ask 3 to 1: INVITE sip:carol@home.example, 1 INVITE
due 2 cap 1 at 180010
live 1 1 1 1
> 100 answer 1 b 180 Ringing
reply 0: 180 Ringing, 7 INVITE
live 1 1 1 1
> 110 answer 3 d 180 Ringing
reply 2: 180 Ringing, 7 INVITE
live 1 1 1 1
> 200 say 1 c1 t-1 a1 UPDATE 8
-> 1 caller
ask 5 to 1: UPDATE sip:b@127.0.0.1:5071, 2 UPDATE
live 1 1 1 1
> 210 say 1 c2 t-5 a2 UPDATE 9
-> 2 caller
ask 7 to 1: UPDATE sip:d@127.0.0.1:5071, 2 UPDATE
live 1 1 1 1
> 300 answer 7 - 200 OK
reply 6: 200 OK, 9 UPDATE
live 1 1 1 1
> 310 answer 7 - 200 OK
live 1 1 1 1
> 400 say 1 c2 t-5 a2 BYE 10
-> 2 caller
reply 8: 200 OK, 10 BYE
reply 2: 487 Request Terminated, 7 INVITE
ask 9 to 1: CANCEL sip:carol@home.example, 1 CANCEL
live 1 1 0 0
> 32200 silent 5
reply 4: 408 Request Timeout, 8 UPDATE
live 1 1 0 0
"#;

#[test]
fn reliable(rt: HostRuntime) {
    assert_right(&rt, "RELIABLE", wrong_step(rt.alloc(), RELIABLE));
    assert_right(&rt, "UPDATES", wrong_step(rt.alloc(), UPDATES));
    assert_right(&rt, "TWO_CALLS", wrong_call(rt.alloc(), TWO_CALLS));
}
