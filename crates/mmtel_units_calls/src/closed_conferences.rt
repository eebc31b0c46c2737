//! Participants that leave, and conferences that are closed, without a signal.

use crate::asserting::assert_right;
use crate::conference_tables::wrong_participant;

/// Leaving gives a row where the participant has an account; an empty place or an invitation cannot be left, nor a place in a conference that is not live. A conference continues
/// without its creator then, and without any participant. Closing gives the remaining legs of all its participants, in their order; nothing is sent, and nothing is pending.
const CLOSING: &[u8] = br#"> 0 create 1 1 alice@home.example
room 1
reply 0: 200 OK, 7 INVITE
due 1 seat 1 no-ack 1 at 32000
seats 1 0 0
> 10 join 1 1 2 erin@home.example
reply 1: 200 OK, 7 INVITE
due 1 seat 2 no-ack 2 at 32010
seats 2 0 0
> 20 join 1 2 3 x@far.example
reply 2: 200 OK, 7 INVITE
due 1 seat 3 no-ack 3 at 32020
seats 3 0 0
> 30 say 1 c1 t-1 a1 ACK 7
-> room 1 seat 1
seats 3 0 0
> 40 say 1 c1 t-1 a1 REFER 8 <sip:bob@home.example>
-> room 1 seat 1
reply 3: 202 Accepted, 8 REFER
ask 4 to 1: NOTIFY sip:caller@127.0.0.1:5071, 1 NOTIFY
 active;expires=180: SIP/2.0 100 Trying
ask 5 to 1: INVITE sip:bob@home.example, 1 INVITE
due 1 seat 4 cap 4 at 180040
seats 4 0 0
> 50 adopt 1 1 1 4 carol@home.example callee
ask 6 to 1: INVITE sip:callee@127.0.0.1:5071, 2 INVITE
seats 5 0 0
> 100 leave 1 9
-> none
seats 5 0 0
> 110 leave 2 1
-> none
seats 5 0 0
> 120 leave 1 4
-> none
seats 5 0 0
> 130 leave 1 3
-> none
seats 4 0 0
> 140 leave 1 2
-> participant,4,1,10,10,140,0,ended,0
seats 3 0 0
> 150 leave 1 2
-> none
seats 3 0 0
> 160 say 1 c2 t-2 a2 BYE 8
-> none
> 170 join 1 2 5 y@far.example
reply 8: 200 OK, 7 INVITE
due 1 seat 6 no-ack 6 at 32170
seats 4 0 0
> 180 leave 1 1
-> participant,1,1,0,0,180,0,ended,0
seats 3 0 0
> 190 notify 1 1 200
seats 3 0 0
> 200 close 2
seats 3 0 0
> 210 close 1
-> no meter
-> participant,3,1,50,50,210,0,ended,0
-> no meter
seats 0 0 0
> 220 close 1
seats 0 0 0
? rows
> 230 answer 5 b 200 OK
seats 0 0 0
> 240 join 1 1 6 alice@home.example
gone: c6 t-11 a6
seats 0 0 0
> 300 create 1 7 erin@home.example
room 2
reply 10: 200 OK, 7 INVITE
due 2 seat 1 no-ack 1 at 32300
seats 0 1 0
> 310 leave 2 1
-> participant,4,2,300,300,310,0,ended,0
seats 0 0 0
> 320 close 2
seats 0 0 0
> 330 create 2 8 z@far.example
room 3
reply 11: 200 OK, 7 INVITE
due 3 seat 1 no-ack 1 at 32330
seats 0 0 1
> 340 leave 3 1
-> none
seats 0 0 0
"#;

#[test]
fn closing(rt: HostRuntime) {
    assert_right(&rt, "CLOSING", wrong_participant(rt.alloc(), CLOSING));
}
