//! Calls that are abandoned by the server.

use crate::asserting::assert_right;
use crate::tables_of_calls::wrong_call;

/// A call of each kind: offered, ringing, answered, left by its target before the ACK, stable, with a request pending, without a leg that is not put back, and ended with an INVITE
/// to which a response may still be received.
const KINDS: &[u8] = br#"> 0 invite 1 1 carol@home.example sip:x@far.example
reply 0: 100 Trying, 7 INVITE
ask 1 to 2: INVITE sip:x@far.example, 1 INVITE
due 1 cap 1 at 180000
live 0 0 1 0
> 0 invite 1 2 carol@home.example sip:x@far.example
reply 2: 100 Trying, 7 INVITE
ask 3 to 2: INVITE sip:x@far.example, 1 INVITE
due 2 cap 1 at 180000
live 0 0 2 0
> 0 answer 3 b2 180 Ringing
reply 2: 180 Ringing, 7 INVITE
live 0 0 2 0
> 0 invite 1 3 carol@home.example sip:x@far.example
reply 4: 100 Trying, 7 INVITE
ask 5 to 2: INVITE sip:x@far.example, 1 INVITE
due 3 cap 1 at 180000
live 0 0 3 0
> 0 answer 5 b3 200 OK
reply 4: 200 OK, 7 INVITE
due 3 no-ack 1 at 32000
live 0 0 3 0
> 0 invite 1 4 carol@home.example sip:x@far.example
reply 6: 100 Trying, 7 INVITE
ask 7 to 2: INVITE sip:x@far.example, 1 INVITE
due 4 cap 1 at 180000
live 0 0 4 0
> 0 answer 7 b4 200 OK
reply 6: 200 OK, 7 INVITE
due 4 no-ack 1 at 32000
live 0 0 4 0
> 0 say 2 t-14 t-15 b4 BYE 1
-> 4 callee
reply 8: 200 OK, 1 BYE
live 0 0 4 0
> 0 invite 1 5 carol@home.example sip:x@far.example
reply 9: 100 Trying, 7 INVITE
ask 10 to 2: INVITE sip:x@far.example, 1 INVITE
due 5 cap 1 at 180000
live 0 0 5 0
> 0 answer 10 b5 200 OK
reply 9: 200 OK, 7 INVITE
due 5 no-ack 1 at 32000
live 0 0 5 0
> 0 say 1 c5 t-17 a5 ACK 7
-> 5 caller
plain to 2: ACK sip:b5@127.0.0.1:5072, 1 ACK
live 0 0 5 0
> 0 invite 1 6 carol@home.example sip:x@far.example
reply 11: 100 Trying, 7 INVITE
ask 12 to 2: INVITE sip:x@far.example, 1 INVITE
due 6 cap 1 at 180000
live 0 0 6 0
> 0 answer 12 b6 200 OK
reply 11: 200 OK, 7 INVITE
due 6 no-ack 1 at 32000
live 0 0 6 0
> 0 say 1 c6 t-22 a6 ACK 7
-> 6 caller
plain to 2: ACK sip:b6@127.0.0.1:5072, 1 ACK
live 0 0 6 0
> 0 say 1 c6 t-22 a6 INVITE 8
-> 6 caller
reply 13: 100 Trying, 8 INVITE
ask 14 to 2: INVITE sip:b6@127.0.0.1:5072, 2 INVITE
live 0 0 6 0
> 0 invite 1 7 carol@home.example sip:x@far.example
reply 15: 100 Trying, 7 INVITE
ask 16 to 2: INVITE sip:x@far.example, 1 INVITE
due 7 cap 1 at 180000
live 0 0 7 0
> 0 answer 16 b7 200 OK
reply 15: 200 OK, 7 INVITE
due 7 no-ack 1 at 32000
live 0 0 7 0
> 0 say 1 c7 t-28 a7 ACK 7
-> 7 caller
plain to 2: ACK sip:b7@127.0.0.1:5072, 1 ACK
live 0 0 7 0
! lose 0 7 callee
leg to 2: t-29 t-30 b7
-> none
-> peer 1, account 3
-> none
live 0 0 7 0
! lose 0 7 caller
not talking
live 0 0 7 0
! lose 0 6 caller
not talking
live 0 0 7 0
! lose 0 4 callee
not talking
live 0 0 7 0
? find c7 t-28 a7
-> 7 caller
? find t-29 t-30 b7
-> none
? asked 15
-> 7 caller
> 0 invite 1 8 carol@home.example sip:x@far.example
reply 17: 100 Trying, 7 INVITE
ask 18 to 2: INVITE sip:x@far.example, 1 INVITE
due 8 cap 1 at 180000
live 0 0 8 0
> 0 cancel 17 1 c8 - a8 7
-> 8 caller
reply 19: 200 OK, 7 CANCEL
reply 17: 487 Request Terminated, 7 INVITE
live 0 0 7 0
"#;

#[test]
fn given_up(rt: HostRuntime) {
    assert_right(&rt, "KINDS", wrong_call(rt.alloc(), KINDS));
}
