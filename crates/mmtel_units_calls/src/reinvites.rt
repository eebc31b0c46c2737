//! INVITEs within answered calls (RFC 3261 §14).
//!
//! Hold (TS 24.610 §4.5.2) is counted from offers that were accepted; each 2xx waits for its own ACK.
//! An INVITE that is refused leaves the call as it is, except where the refusal means that the dialog no longer exists (RFC 5057 §5.1).
//! An INVITE that is cancelled (RFC 3261 §9.1), and INVITEs that cross (§14.2).
//! A side leaves while an INVITE has no final response.

use crate::asserting::assert_right;
use crate::call_tables::wrong_step;

const ASKING: &[u8] = br#"# the caller holds the call, and takes it up again
> 0 invite 1 alice@home.example sip:bob@home.example
reply 0: 100 Trying, 7 INVITE
ask 1 to 1: INVITE sip:bob@home.example, 1 INVITE
 P-Asserted-Identity: <sip:alice@home.example>
due cap 1 at 180000
-> asked
> 200 answer 1 b 200 OK
reply 0: 200 OK, 7 INVITE
due no-ack 1 at 32200
-> answered caller
> 300 caller ACK 7
plain to 1: ACK sip:b@127.0.0.1:5071, 1 ACK
-> talking
> 1000 caller INVITE 8|Content-Type: application/sdp|=v=0|=m=audio 5004 RTP/AVP 8|=a=sendonly
reply 2: 100 Trying, 8 INVITE
ask 3 to 1: INVITE sip:b@127.0.0.1:5071, 2 INVITE
 Content-Type: application/sdp
 =v=0
 =m=audio 5004 RTP/AVP 8
 =a=sendonly
-> asking caller
> 1010 callee INVITE 1
reply 4: 491 Request Pending, 1 INVITE
-> asking caller
> 1015 answer 3 - 180 Ringing
-> asking caller
> 1020 answer 3 - 200 OK|Content-Type: application/sdp|=v=0|=m=audio 5004 RTP/AVP 8|=a=recvonly
reply 2: 200 OK, 8 INVITE
 Content-Type: application/sdp
 =v=0
 =m=audio 5004 RTP/AVP 8
 =a=recvonly
due no-ack 2 at 33020
-> answered caller
> 1025 caller INVITE 9
reply 5: 491 Request Pending, 9 INVITE
-> answered caller
> 1030 caller ACK 8
plain to 1: ACK sip:b@127.0.0.1:5071, 2 ACK
-> talking
> 1040 answer 3 - 200 OK
plain to 1: ACK sip:b@127.0.0.1:5071, 2 ACK
-> talking
> 2000 caller INVITE 10|Content-Type: application/sdp|=v=0|=m=audio 5004 RTP/AVP 8|=a=sendrecv
reply 6: 100 Trying, 10 INVITE
ask 7 to 1: INVITE sip:b@127.0.0.1:5071, 3 INVITE
 Content-Type: application/sdp
 =v=0
 =m=audio 5004 RTP/AVP 8
 =a=sendrecv
-> asking caller
> 2020 answer 7 - 200 OK
reply 6: 200 OK, 10 INVITE
due no-ack 3 at 34020
-> answered caller
> 2030 caller ACK 10
plain to 1: ACK sip:b@127.0.0.1:5071, 3 ACK
-> talking
> 3000 caller INVITE 8
reply 8: 500 Server Internal Error, 8 INVITE
-> talking
> 4000 caller BYE 11
reply 9: 200 OK, 11 BYE
ask 10 to 1: BYE sip:b@127.0.0.1:5071, 4 BYE
origin,1,1,0,200,4000,1,ended,0
terminating,2,1,0,200,4000,1,ended,0
-> over ended
# the target holds it, and no ACK comes
> 0 invite 1 alice@home.example sip:bob@home.example
reply 0: 100 Trying, 7 INVITE
ask 1 to 1: INVITE sip:bob@home.example, 1 INVITE
 P-Asserted-Identity: <sip:alice@home.example>
due cap 1 at 180000
-> asked
> 200 answer 1 b 200 OK
reply 0: 200 OK, 7 INVITE
due no-ack 1 at 32200
-> answered caller
> 300 caller ACK 7
plain to 1: ACK sip:b@127.0.0.1:5071, 1 ACK
-> talking
> 1000 callee INVITE 1|Content-Type: application/sdp|=v=0|=m=audio 5004 RTP/AVP 8|=a=inactive
reply 2: 100 Trying, 1 INVITE
ask 3 to 1: INVITE sip:caller@127.0.0.1:5071, 1 INVITE
 Content-Type: application/sdp
 =v=0
 =m=audio 5004 RTP/AVP 8
 =a=inactive
-> asking callee
> 1020 answer 3 - 200 OK
reply 2: 200 OK, 1 INVITE
due no-ack 2 at 33020
-> answered callee
> 32200 due no-ack 1
-> answered callee
> 33020 due no-ack 2
plain to 1: ACK sip:caller@127.0.0.1:5071, 1 ACK
ask 4 to 1: BYE sip:caller@127.0.0.1:5071, 2 BYE
ask 5 to 1: BYE sip:b@127.0.0.1:5071, 2 BYE
origin,1,1,0,200,33020,1,ended,0
terminating,2,1,0,200,33020,1,ended,0
-> over ended
# both hold it
> 0 invite 1 alice@home.example sip:bob@home.example
reply 0: 100 Trying, 7 INVITE
ask 1 to 1: INVITE sip:bob@home.example, 1 INVITE
 P-Asserted-Identity: <sip:alice@home.example>
due cap 1 at 180000
-> asked
> 200 answer 1 b 200 OK
reply 0: 200 OK, 7 INVITE
due no-ack 1 at 32200
-> answered caller
> 300 caller ACK 7
plain to 1: ACK sip:b@127.0.0.1:5071, 1 ACK
-> talking
> 1000 caller INVITE 8|Content-Type: application/sdp|=v=0|=m=audio 5004 RTP/AVP 8|=a=sendonly
reply 2: 100 Trying, 8 INVITE
ask 3 to 1: INVITE sip:b@127.0.0.1:5071, 2 INVITE
 Content-Type: application/sdp
 =v=0
 =m=audio 5004 RTP/AVP 8
 =a=sendonly
-> asking caller
> 1020 answer 3 - 200 OK
reply 2: 200 OK, 8 INVITE
due no-ack 2 at 33020
-> answered caller
> 1030 caller ACK 8
plain to 1: ACK sip:b@127.0.0.1:5071, 2 ACK
-> talking
> 2000 callee INVITE 1|Content-Type: application/sdp|=v=0|=m=audio 5004 RTP/AVP 8|=a=sendonly
reply 4: 100 Trying, 1 INVITE
ask 5 to 1: INVITE sip:caller@127.0.0.1:5071, 1 INVITE
 Content-Type: application/sdp
 =v=0
 =m=audio 5004 RTP/AVP 8
 =a=sendonly
-> asking callee
> 2020 answer 5 - 200 OK
reply 4: 200 OK, 1 INVITE
due no-ack 3 at 34020
-> answered callee
> 2030 callee ACK 1
plain to 1: ACK sip:caller@127.0.0.1:5071, 1 ACK
-> talking
> 2040 callee BYE 2
reply 6: 200 OK, 2 BYE
ask 7 to 1: BYE sip:caller@127.0.0.1:5071, 2 BYE
origin,1,1,0,200,2040,2,ended,0
terminating,2,1,0,200,2040,2,ended,0
-> over ended
# refused, and the call talks on and is not held
> 0 invite 1 alice@home.example sip:bob@home.example
reply 0: 100 Trying, 7 INVITE
ask 1 to 1: INVITE sip:bob@home.example, 1 INVITE
 P-Asserted-Identity: <sip:alice@home.example>
due cap 1 at 180000
-> asked
> 200 answer 1 b 200 OK
reply 0: 200 OK, 7 INVITE
due no-ack 1 at 32200
-> answered caller
> 300 caller ACK 7
plain to 1: ACK sip:b@127.0.0.1:5071, 1 ACK
-> talking
> 1000 caller INVITE 8|Content-Type: application/sdp|=v=0|=m=audio 5004 RTP/AVP 8|=a=sendonly
reply 2: 100 Trying, 8 INVITE
ask 3 to 1: INVITE sip:b@127.0.0.1:5071, 2 INVITE
 Content-Type: application/sdp
 =v=0
 =m=audio 5004 RTP/AVP 8
 =a=sendonly
-> asking caller
> 1010 answer 3 - 180 Ringing
-> asking caller
> 1020 answer 3 - 488 Not Here
ack 3: ACK sip:b@127.0.0.1:5071, 2 ACK
reply 2: 488 Not Here, 8 INVITE
-> talking
> 1030 caller BYE 9
reply 4: 200 OK, 9 BYE
ask 5 to 1: BYE sip:b@127.0.0.1:5071, 3 BYE
origin,1,1,0,200,1030,0,ended,0
terminating,2,1,0,200,1030,0,ended,0
-> over ended
# 481 ends the call
> 0 invite 1 alice@home.example sip:bob@home.example
reply 0: 100 Trying, 7 INVITE
ask 1 to 1: INVITE sip:bob@home.example, 1 INVITE
 P-Asserted-Identity: <sip:alice@home.example>
due cap 1 at 180000
-> asked
> 200 answer 1 b 200 OK
reply 0: 200 OK, 7 INVITE
due no-ack 1 at 32200
-> answered caller
> 300 caller ACK 7
plain to 1: ACK sip:b@127.0.0.1:5071, 1 ACK
-> talking
> 1000 caller INVITE 8
reply 2: 100 Trying, 8 INVITE
ask 3 to 1: INVITE sip:b@127.0.0.1:5071, 2 INVITE
-> asking caller
> 1020 answer 3 - 481 Gone
ack 3: ACK sip:b@127.0.0.1:5071, 2 ACK
reply 2: 481 Gone, 8 INVITE
ask 4 to 1: BYE sip:caller@127.0.0.1:5071, 1 BYE
ask 5 to 1: BYE sip:b@127.0.0.1:5071, 3 BYE
origin,1,1,0,200,1020,0,ended,0
terminating,2,1,0,200,1020,0,ended,0
-> over ended
# 408 to the target ends it, and BYE goes to the caller first
> 0 invite 1 alice@home.example sip:bob@home.example
reply 0: 100 Trying, 7 INVITE
ask 1 to 1: INVITE sip:bob@home.example, 1 INVITE
 P-Asserted-Identity: <sip:alice@home.example>
due cap 1 at 180000
-> asked
> 200 answer 1 b 200 OK
reply 0: 200 OK, 7 INVITE
due no-ack 1 at 32200
-> answered caller
> 300 caller ACK 7
plain to 1: ACK sip:b@127.0.0.1:5071, 1 ACK
-> talking
> 1000 callee INVITE 1
reply 2: 100 Trying, 1 INVITE
ask 3 to 1: INVITE sip:caller@127.0.0.1:5071, 1 INVITE
-> asking callee
> 1020 answer 3 - 408 Too Late
ack 3: ACK sip:caller@127.0.0.1:5071, 1 ACK
reply 2: 408 Too Late, 1 INVITE
ask 4 to 1: BYE sip:caller@127.0.0.1:5071, 2 BYE
ask 5 to 1: BYE sip:b@127.0.0.1:5071, 2 BYE
origin,1,1,0,200,1020,0,ended,0
terminating,2,1,0,200,1020,0,ended,0
-> over ended
# silence is as a 408
> 0 invite 1 alice@home.example sip:bob@home.example
reply 0: 100 Trying, 7 INVITE
ask 1 to 1: INVITE sip:bob@home.example, 1 INVITE
 P-Asserted-Identity: <sip:alice@home.example>
due cap 1 at 180000
-> asked
> 200 answer 1 b 200 OK
reply 0: 200 OK, 7 INVITE
due no-ack 1 at 32200
-> answered caller
> 300 caller ACK 7
plain to 1: ACK sip:b@127.0.0.1:5071, 1 ACK
-> talking
> 1000 caller INVITE 8
reply 2: 100 Trying, 8 INVITE
ask 3 to 1: INVITE sip:b@127.0.0.1:5071, 2 INVITE
-> asking caller
> 33000 silent 3
reply 2: 408 Request Timeout, 8 INVITE
ask 4 to 1: BYE sip:caller@127.0.0.1:5071, 1 BYE
ask 5 to 1: BYE sip:b@127.0.0.1:5071, 3 BYE
origin,1,1,0,200,33000,0,ended,0
terminating,2,1,0,200,33000,0,ended,0
-> over ended
# cancelled before a provisional response, for which the CANCEL waits
> 0 invite 1 alice@home.example sip:bob@home.example
reply 0: 100 Trying, 7 INVITE
ask 1 to 1: INVITE sip:bob@home.example, 1 INVITE
 P-Asserted-Identity: <sip:alice@home.example>
due cap 1 at 180000
-> asked
> 200 answer 1 b 200 OK
reply 0: 200 OK, 7 INVITE
due no-ack 1 at 32200
-> answered caller
> 300 caller ACK 7
plain to 1: ACK sip:b@127.0.0.1:5071, 1 ACK
-> talking
> 1000 caller INVITE 8
reply 2: 100 Trying, 8 INVITE
ask 3 to 1: INVITE sip:b@127.0.0.1:5071, 2 INVITE
-> asking caller
> 1010 cancel 2 8
reply 4: 200 OK, 8 CANCEL
-> asking caller
> 1020 answer 3 - 180 Ringing
ask 5 to 1: CANCEL sip:b@127.0.0.1:5071, 2 CANCEL
-> asking caller
> 1030 answer 3 - 180 Ringing
-> asking caller
> 1040 answer 3 - 487 Stopped
ack 3: ACK sip:b@127.0.0.1:5071, 2 ACK
reply 2: 487 Stopped, 8 INVITE
-> talking
# after one
> 0 invite 1 alice@home.example sip:bob@home.example
reply 0: 100 Trying, 7 INVITE
ask 1 to 1: INVITE sip:bob@home.example, 1 INVITE
 P-Asserted-Identity: <sip:alice@home.example>
due cap 1 at 180000
-> asked
> 200 answer 1 b 200 OK
reply 0: 200 OK, 7 INVITE
due no-ack 1 at 32200
-> answered caller
> 300 caller ACK 7
plain to 1: ACK sip:b@127.0.0.1:5071, 1 ACK
-> talking
> 1000 caller INVITE 8
reply 2: 100 Trying, 8 INVITE
ask 3 to 1: INVITE sip:b@127.0.0.1:5071, 2 INVITE
-> asking caller
> 1010 answer 3 - 180 Ringing
-> asking caller
> 1020 cancel 2 8
reply 4: 200 OK, 8 CANCEL
ask 5 to 1: CANCEL sip:b@127.0.0.1:5071, 2 CANCEL
-> asking caller
# the INVITE that opened the call can be cancelled no more
> 0 invite 1 alice@home.example sip:bob@home.example
reply 0: 100 Trying, 7 INVITE
ask 1 to 1: INVITE sip:bob@home.example, 1 INVITE
 P-Asserted-Identity: <sip:alice@home.example>
due cap 1 at 180000
-> asked
> 200 answer 1 b 200 OK
reply 0: 200 OK, 7 INVITE
due no-ack 1 at 32200
-> answered caller
> 300 caller ACK 7
plain to 1: ACK sip:b@127.0.0.1:5071, 1 ACK
-> talking
> 1000 caller INVITE 8
reply 2: 100 Trying, 8 INVITE
ask 3 to 1: INVITE sip:b@127.0.0.1:5071, 2 INVITE
-> asking caller
> 1010 answer 3 - 180 Ringing
-> asking caller
> 1020 cancel 0 7
reply 4: 200 OK, 7 CANCEL
-> asking caller
# nor can both ask at once
> 0 invite 1 alice@home.example sip:bob@home.example
reply 0: 100 Trying, 7 INVITE
ask 1 to 1: INVITE sip:bob@home.example, 1 INVITE
 P-Asserted-Identity: <sip:alice@home.example>
due cap 1 at 180000
-> asked
> 200 answer 1 b 200 OK
reply 0: 200 OK, 7 INVITE
due no-ack 1 at 32200
-> answered caller
> 300 caller ACK 7
plain to 1: ACK sip:b@127.0.0.1:5071, 1 ACK
-> talking
> 1000 caller INVITE 8
reply 2: 100 Trying, 8 INVITE
ask 3 to 1: INVITE sip:b@127.0.0.1:5071, 2 INVITE
-> asking caller
> 1010 callee INVITE 1
reply 4: 491 Request Pending, 1 INVITE
-> asking caller
> 1020 caller INVITE 9
reply 5: 500 Server Internal Error, 9 INVITE
 Retry-After: 5
-> asking caller
# the side that asked leaves: the other one has its BYE, and a late 2xx its ACK alone
> 0 invite 1 alice@home.example sip:bob@home.example
reply 0: 100 Trying, 7 INVITE
ask 1 to 1: INVITE sip:bob@home.example, 1 INVITE
 P-Asserted-Identity: <sip:alice@home.example>
due cap 1 at 180000
-> asked
> 200 answer 1 b 200 OK
reply 0: 200 OK, 7 INVITE
due no-ack 1 at 32200
-> answered caller
> 300 caller ACK 7
plain to 1: ACK sip:b@127.0.0.1:5071, 1 ACK
-> talking
> 1000 caller INVITE 8
reply 2: 100 Trying, 8 INVITE
ask 3 to 1: INVITE sip:b@127.0.0.1:5071, 2 INVITE
-> asking caller
> 1010 caller BYE 9
reply 4: 200 OK, 9 BYE
reply 2: 487 Request Terminated, 8 INVITE
ask 5 to 1: BYE sip:b@127.0.0.1:5071, 3 BYE
origin,1,1,0,200,1010,0,ended,0
terminating,2,1,0,200,1010,0,ended,0
-> over ended, loose 1
> 1020 answer 3 - 200 OK
plain to 1: ACK sip:b@127.0.0.1:5071, 2 ACK
-> over ended, loose 1
> 1030 answer 3 - 486 Busy Here
ack 3: ACK sip:b@127.0.0.1:5071, 2 ACK
-> over ended
# the side that was asked leaves: nothing was sent to it, so a late 2xx has ACK and BYE
> 0 invite 1 alice@home.example sip:bob@home.example
reply 0: 100 Trying, 7 INVITE
ask 1 to 1: INVITE sip:bob@home.example, 1 INVITE
 P-Asserted-Identity: <sip:alice@home.example>
due cap 1 at 180000
-> asked
> 200 answer 1 b 200 OK
reply 0: 200 OK, 7 INVITE
due no-ack 1 at 32200
-> answered caller
> 300 caller ACK 7
plain to 1: ACK sip:b@127.0.0.1:5071, 1 ACK
-> talking
> 1000 caller INVITE 8
reply 2: 100 Trying, 8 INVITE
ask 3 to 1: INVITE sip:b@127.0.0.1:5071, 2 INVITE
-> asking caller
> 1010 callee BYE 1
reply 4: 200 OK, 1 BYE
reply 2: 487 Request Terminated, 8 INVITE
ask 5 to 1: BYE sip:caller@127.0.0.1:5071, 1 BYE
origin,1,1,0,200,1010,0,ended,0
terminating,2,1,0,200,1010,0,ended,0
-> over ended, loose 1
> 1015 answer 3 - 180 Ringing
ask 6 to 1: CANCEL sip:b@127.0.0.1:5071, 2 CANCEL
-> over ended, loose 1
> 1020 answer 3 - 200 OK
plain to 1: ACK sip:b@127.0.0.1:5071, 2 ACK
ask 7 to 1: BYE sip:b@127.0.0.1:5071, 3 BYE
-> over ended, loose 1
> 1030 answer 3 - 200 OK
plain to 1: ACK sip:b@127.0.0.1:5071, 2 ACK
-> over ended, loose 1
> 40000 ended 3
-> over ended
"#;

#[test]
fn asking(rt: HostRuntime) {
    assert_right(&rt, "ASKING", wrong_step(rt.alloc(), ASKING));
}
