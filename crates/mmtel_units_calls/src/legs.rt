//! Legs that are detached from calls.

use crate::asserting::assert_right;
use crate::tables_of_calls::wrong_call;

/// A leg is taken out of a stable call alone; while it is out, neither its dialog is found nor its side, and both accounts are in the call still. Once it is put back, the call
/// continues; else it ends by BYE to the leg that remains (RFC 4579 §5.6). Rows are handed over from the front.
const LEGS: &[u8] = br#"> 0 invite 1 1 alice@home.example sip:bob@home.example
reply 0: 100 Trying, 7 INVITE
ask 1 to 1: INVITE sip:bob@home.example, 1 INVITE
due 1 cap 1 at 180000
live 1 1 0 0
! lend 10 1 caller
not talking
live 1 1 0 0
> 200 answer 1 b 200 OK
reply 0: 200 OK, 7 INVITE
due 1 no-ack 1 at 32200
live 1 1 0 0
! lend 210 1 callee
not talking
live 1 1 0 0
! lend 220 2 caller
not talking
live 1 1 0 0
> 300 say 1 c1 t-1 a1 ACK 7
-> 1 caller
plain to 1: ACK sip:b@127.0.0.1:5071, 1 ACK
live 1 1 0 0
! lend 310 1 callee
leg to 1: t-2 t-3 b
-> none
-> peer 1, account 1
-> none
live 1 1 0 0
! lend 320 1 caller
leg to 1: c1 t-1 a1
-> none
-> none
-> peer 1, account 2
live 1 1 0 0
? find t-2 t-3 b
-> 1 callee
? party 1
-> peer 1, account 1
-> peer 1, account 2
> 400 say 1 c1 t-1 a1 BYE 8
-> 1 caller
reply 2: 200 OK, 8 BYE
ask 3 to 1: BYE sip:b@127.0.0.1:5071, 2 BYE
live 0 0 0 0
! lend 410 1 caller
not talking
live 0 0 0 0
> 1000 invite 1 2 erin@home.example sip:bob@home.example
reply 4: 100 Trying, 7 INVITE
ask 5 to 1: INVITE sip:bob@home.example, 1 INVITE
due 2 cap 1 at 181000
live 0 1 0 1
> 1200 answer 5 d 200 OK
reply 4: 200 OK, 7 INVITE
due 2 no-ack 1 at 33200
live 0 1 0 1
> 1300 say 1 c2 t-7 a2 ACK 7
-> 2 caller
plain to 1: ACK sip:d@127.0.0.1:5071, 1 ACK
live 0 1 0 1
! part 1400 2 caller
leg to 1: c2 t-7 a2
-> none
-> none
-> peer 1, account 2
ask 6 to 1: BYE sip:d@127.0.0.1:5071, 2 BYE
live 0 0 0 0
> 2000 invite 1 3 carol@home.example sip:x@far.example
reply 7: 100 Trying, 7 INVITE
ask 8 to 2: INVITE sip:x@far.example, 1 INVITE
due 3 cap 1 at 182000
live 0 0 1 0
? party 3
-> peer 1, account 3
-> peer 2, no account
> 2200 answer 8 f 200 OK
reply 7: 200 OK, 7 INVITE
due 3 no-ack 1 at 34200
live 0 0 1 0
> 2300 say 1 c3 t-13 a3 ACK 7
-> 3 caller
plain to 2: ACK sip:f@127.0.0.1:5072, 1 ACK
live 0 0 1 0
! part 2400 3 callee
leg to 2: t-14 t-15 f
-> none
-> peer 1, account 3
-> none
ask 9 to 1: BYE sip:caller@127.0.0.1:5071, 1 BYE
live 0 0 0 0
? party 3
-> none
-> none
? rows
origin,1,1,0,200,400,0,ended,0
terminating,2,1,0,200,400,0,ended,0
origin,4,2,1000,1200,1400,0,ended,0
terminating,2,2,1000,1200,1400,0,ended,0
origin,3,3,2000,2200,2400,0,ended,0
! drop 3
? rows
terminating,2,2,1000,1200,1400,0,ended,0
origin,3,3,2000,2200,2400,0,ended,0
! drop 2
? rows
"#;

#[test]
fn legs(rt: HostRuntime) {
    assert_right(&rt, "LEGS", wrong_call(rt.alloc(), LEGS));
}
