//! A leg is taken out of a call into a conference.

use crate::asserting::assert_right;
use crate::conference_tables::wrong_participant;

/// NOTIFY is sent only to a participant that is there. Legs of a callee and of a caller are invited by re-INVITE, and have their participant, dialog and CDR from then on (RFC
/// 4579 §5.6): a re-INVITE of their own crosses, no ringing limit ends them, and after a 2xx with another tag than the dialog's a further one with that tag gets the ACK again. A
/// refusal and a timeout end them by BYE, after the ACK and before the NOTIFY. One that leaves by itself while its re-INVITE has no final response gets CANCEL at the next
/// provisional response, and ACK and BYE at a late 2xx; one that got its BYE gets the ACK alone. A REFER that names a dialog gets its 202 and nothing more. The leg that finds no
/// conference is handed back.
const ADOPTING: &[u8] = br#"> 0 create 1 1 alice@home.example
room 1
reply 0: 200 OK, 7 INVITE
due 1 seat 1 no-ack 1 at 32000
seats 1 0 0
> 10 say 1 c1 t-1 a1 ACK 7
-> room 1 seat 1
seats 1 0 0
> 90 notify 1 1 100
ask 1 to 1: NOTIFY sip:caller@127.0.0.1:5071, 1 NOTIFY
 active;expires=180: SIP/2.0 100 Trying
seats 1 0 0
> 91 notify 1 2 100
seats 1 0 0
> 92 notify 2 1 100
seats 1 0 0
> 93 notify 1 1 491
ask 2 to 1: NOTIFY sip:caller@127.0.0.1:5071, 2 NOTIFY
 terminated;reason=noresource: SIP/2.0 491 Request Pending
seats 1 0 0
> 100 adopt 1 1 2 2 x@far.example callee
ask 3 to 2: INVITE sip:callee@127.0.0.1:5072, 2 INVITE
seats 2 0 0
? find k2 t-4 b2
-> room 1 seat 2
> 110 say 2 k2 t-4 b2 INVITE 1 audio
-> room 1 seat 2
reply 4: 491 Request Pending, 1 INVITE
seats 2 0 0
> 120 say 2 k2 t-4 b2 OPTIONS 2
-> room 1 seat 2
reply 5: 200 OK, 2 OPTIONS
seats 2 0 0
> 130 due 1 2 cap 2
seats 2 0 0
> 140 answer 3 - 180 Ringing
seats 2 0 0
> 150 answer 3 z 202 Accepted
plain to 2: ACK sip:callee@127.0.0.1:5072, 2 ACK
ask 6 to 1: NOTIFY sip:caller@127.0.0.1:5071, 3 NOTIFY
 terminated;reason=noresource: SIP/2.0 200 OK
seats 2 0 0
> 160 answer 3 - 200 OK
seats 2 0 0
> 170 answer 3 z 200 OK
plain to 2: ACK sip:callee@127.0.0.1:5072, 2 ACK
seats 2 0 0
> 200 adopt 1 1 1 3 erin@home.example caller
ask 7 to 1: INVITE sip:caller@127.0.0.1:5071, 1 INVITE
seats 3 0 0
> 210 answer 7 - 486 Busy Here
ack 7: ACK sip:caller@127.0.0.1:5071, 1 ACK
ask 8 to 1: BYE sip:caller@127.0.0.1:5071, 2 BYE
ask 9 to 1: NOTIFY sip:caller@127.0.0.1:5071, 4 NOTIFY
 terminated;reason=noresource: SIP/2.0 486 Busy Here
seats 2 0 0
? rows
participant,4,1,200,200,210,0,ended,0
> 300 adopt 1 1 1 4 erin@home.example caller
ask 10 to 1: INVITE sip:caller@127.0.0.1:5071, 1 INVITE
seats 3 0 0
> 32300 silent 10
ask 11 to 1: BYE sip:caller@127.0.0.1:5071, 2 BYE
ask 12 to 1: NOTIFY sip:caller@127.0.0.1:5071, 5 NOTIFY
 terminated;reason=noresource: SIP/2.0 408 Request Timeout
seats 2 0 0
? rows
participant,4,1,200,200,210,0,ended,0
participant,4,1,300,300,32300,0,ended,0
> 32400 adopt 1 1 1 5 erin@home.example callee
ask 13 to 1: INVITE sip:callee@127.0.0.1:5071, 2 INVITE
seats 3 0 0
> 32410 say 1 k5 t-16 b5 BYE 1
-> room 1 seat 5
reply 14: 200 OK, 1 BYE
seats 2 0 0
? rows
participant,4,1,200,200,210,0,ended,0
participant,4,1,300,300,32300,0,ended,0
participant,4,1,32400,32400,32410,0,ended,0
> 32420 answer 13 - 180 Ringing
ask 15 to 1: CANCEL sip:callee@127.0.0.1:5071, 2 CANCEL
seats 2 0 0
> 32430 answer 13 - 200 OK
plain to 1: ACK sip:callee@127.0.0.1:5071, 2 ACK
ask 16 to 1: BYE sip:callee@127.0.0.1:5071, 3 BYE
seats 2 0 0
> 32440 answer 13 - 200 OK
plain to 1: ACK sip:callee@127.0.0.1:5071, 2 ACK
seats 2 0 0
> 32500 adopt 1 2 1 6 bob@home.example caller
ask 17 to 1: INVITE sip:caller@127.0.0.1:5071, 1 INVITE
seats 3 0 0
> 32600 adopt 2 1 1 7 bob@home.example callee
gone: k7 t-23 b7
seats 3 0 0
> 32700 say 2 k2 t-4 b2 BYE 3
-> room 1 seat 2
reply 18: 200 OK, 3 BYE
seats 2 0 0
> 32710 answer 17 - 200 OK
plain to 1: ACK sip:caller@127.0.0.1:5071, 1 ACK
seats 2 0 0
> 32800 say 1 c1 t-1 a1 REFER 8 <sip:x@far.example?Replaces=k9%3Bto-tag%3Dx%3Bfrom-tag%3Dy>
-> room 1 seat 1
reply 19: 202 Accepted, 8 REFER
seats 2 0 0
> 32810 adopt 1 1 2 8 x@far.example caller
ask 20 to 2: INVITE sip:caller@127.0.0.1:5072, 1 INVITE
seats 3 0 0
> 32900 say 1 c1 t-1 a1 BYE 9
-> room 1 seat 1
reply 21: 200 OK, 9 BYE
ask 22 to 1: BYE sip:caller@127.0.0.1:5071, 2 BYE
ask 23 to 2: BYE sip:caller@127.0.0.1:5072, 2 BYE
seats 0 0 0
? rows
participant,4,1,200,200,210,0,ended,0
participant,4,1,300,300,32300,0,ended,0
participant,4,1,32400,32400,32410,0,ended,0
participant,1,1,0,0,32900,0,ended,0
participant,2,1,32500,32500,32900,0,ended,0
> 33000 answer 20 - 200 OK
plain to 2: ACK sip:caller@127.0.0.1:5072, 1 ACK
seats 0 0 0
> 33010 answer 20 - 200 OK
plain to 2: ACK sip:caller@127.0.0.1:5072, 1 ACK
seats 0 0 0
> 33020 over 20
seats 0 0 0
> 33030 answer 20 - 200 OK
seats 0 0 0
"#;

#[test]
fn adopting(rt: HostRuntime) {
    assert_right(&rt, "ADOPTING", wrong_participant(rt.alloc(), ADOPTING));
}
