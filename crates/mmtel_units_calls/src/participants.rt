//! Participants that join, send re-INVITEs, and leave.

use crate::asserting::assert_right;
use crate::conference_tables::wrong_participant;

/// Alice creates a conference and is its first participant (RFC 4579 §5.4). While her ACK is due her INVITE crosses (RFC 3261 §14.2); an ACK of another number is none. Erin joins,
/// sends a re-INVITE which the mixer answers, sends an old number, an INVITE without an offer and a method that a participant does not support. Carol sends no ACK, and has BYE and
/// leaves after 32 s; Erin leaves by BYE; with Alice's BYE, and in the second conference where her ACK is not received, the conference closes, and all that remain have BYE in
/// their order. A conference that is closed no longer exists, and its leg is handed back. Rows wait in the order of leaving.
const SEATS: &[u8] = br#"> 0 create 1 1 alice@home.example
room 1
reply 0: 200 OK, 7 INVITE
due 1 seat 1 no-ack 1 at 32000
seats 1 0 0
? find c1 t-1 a1
-> room 1 seat 1
? find c1 a1 t-1
-> none
> 100 say 1 c1 t-1 a1 INVITE 8 audio
-> room 1 seat 1
reply 1: 491 Request Pending, 8 INVITE
seats 1 0 0
> 110 say 1 c1 t-1 a1 OPTIONS 8
-> room 1 seat 1
reply 2: 200 OK, 8 OPTIONS
seats 1 0 0
> 120 say 1 c1 t-1 a1 ACK 8
-> room 1 seat 1
seats 1 0 0
> 130 say 1 c1 t-1 a1 ACK 7
-> room 1 seat 1
seats 1 0 0
> 200 join 1 1 2 erin@home.example
reply 3: 200 OK, 7 INVITE
due 1 seat 2 no-ack 2 at 32200
seats 2 0 0
> 210 join 2 1 3 carol@home.example
gone: c3 t-3 a3
seats 2 0 0
> 220 say 1 c2 t-2 a2 ACK 7
-> room 1 seat 2
seats 2 0 0
> 300 say 1 c2 t-2 a2 INVITE 8 audio
-> room 1 seat 2
reply 5: 200 OK, 8 INVITE
due 1 seat 2 no-ack 3 at 32300
seats 2 0 0
> 310 say 1 c2 t-2 a2 ACK 7
-> room 1 seat 2
seats 2 0 0
> 320 say 1 c2 t-2 a2 BYE 7
-> room 1 seat 2
reply 6: 500 Server Internal Error, 7 BYE
seats 2 0 0
> 330 due 1 2 no-ack 2
seats 2 0 0
> 340 say 1 c2 t-2 a2 ACK 8
-> room 1 seat 2
seats 2 0 0
> 350 due 1 2 no-ack 3
seats 2 0 0
> 400 say 1 c2 t-2 a2 INVITE 9
-> room 1 seat 2
reply 7: 488 Not Acceptable Here, 9 INVITE
seats 2 0 0
> 410 say 1 c2 t-2 a2 REGISTER 10
-> room 1 seat 2
reply 8: 481 Call/Transaction Does Not Exist, 10 REGISTER
seats 2 0 0
> 500 join 1 2 4 x@far.example
reply 9: 200 OK, 7 INVITE
due 1 seat 3 no-ack 4 at 32500
seats 3 0 0
> 510 join 1 1 5 carol@home.example
reply 10: 200 OK, 7 INVITE
due 1 seat 4 no-ack 5 at 32510
seats 4 0 0
> 32510 due 1 4 no-ack 5
ask 11 to 1: BYE sip:caller@127.0.0.1:5071, 1 BYE
seats 3 0 0
? rows
participant,3,1,510,510,32510,0,ended,0
> 32600 say 1 c5 t-5 a5 BYE 8
-> none
> 33000 say 1 c2 t-2 a2 BYE 11
-> room 1 seat 2
reply 13: 200 OK, 11 BYE
seats 2 0 0
> 33010 say 1 c2 t-2 a2 BYE 12
-> none
> 33020 join 1 1 6 bob@home.example
reply 15: 200 OK, 7 INVITE
due 1 seat 5 no-ack 6 at 65020
seats 3 0 0
> 34000 say 1 c1 t-1 a1 BYE 9
-> room 1 seat 1
reply 16: 200 OK, 9 BYE
ask 17 to 2: BYE sip:caller@127.0.0.1:5072, 1 BYE
ask 18 to 1: BYE sip:caller@127.0.0.1:5071, 1 BYE
seats 0 0 0
? find c4 t-4 a4
-> none
? rows
participant,3,1,510,510,32510,0,ended,0
participant,4,1,200,200,33000,0,ended,0
participant,1,1,0,0,34000,0,ended,0
participant,2,1,33020,33020,34000,0,ended,0
> 34010 join 1 1 7 bob@home.example
gone: c7 t-10 a7
seats 0 0 0
> 35000 create 1 8 alice@home.example
room 2
reply 20: 200 OK, 7 INVITE
due 2 seat 1 no-ack 1 at 67000
seats 0 1 0
> 35100 join 2 1 9 bob@home.example
reply 21: 200 OK, 7 INVITE
due 2 seat 2 no-ack 2 at 67100
seats 0 2 0
> 67000 due 2 1 no-ack 1
ask 22 to 1: BYE sip:caller@127.0.0.1:5071, 1 BYE
ask 23 to 1: BYE sip:caller@127.0.0.1:5071, 1 BYE
seats 0 0 0
? rows
participant,3,1,510,510,32510,0,ended,0
participant,4,1,200,200,33000,0,ended,0
participant,1,1,0,0,34000,0,ended,0
participant,2,1,33020,33020,34000,0,ended,0
participant,1,2,35000,35000,67000,0,ended,0
participant,2,2,35100,35100,67000,0,ended,0
> 67000 drop 3
seats 0 0 0
? rows
participant,2,1,33020,33020,34000,0,ended,0
participant,1,2,35000,35000,67000,0,ended,0
participant,2,2,35100,35100,67000,0,ended,0
"#;

#[test]
fn seats(rt: HostRuntime) {
    assert_right(&rt, "SEATS", wrong_participant(rt.alloc(), SEATS));
}
