//! The maximum number of live calls.

use crate::asserting::assert_right;
use crate::tables_of_calls::wrong_call;

/// Once 4,096 calls live, the next INVITE opens none, and is handed back: no number is used and no token drawn. A call that ended makes space, though a message for it may still be
/// received.
const LIMITS: &[u8] = br#"! fill 4096
? asked 0
-> 1 caller
? asked 4095
-> 4096 caller
? find c4095 t-16381 a4095
-> 4096 caller
> 0 invite 2 4096 x@far.example sip:y@far.example
full 4096:
live 0 0 0 0
? asked 4096
-> none
? find c4096 t-16385 a4096
-> none
? party 4097
-> none
-> none
> 100 cancel 9 2 c9 - a9 7
-> 10 caller
reply 4097: 200 OK, 7 CANCEL
reply 9: 487 Request Terminated, 7 INVITE
live 0 0 0 0
? rows
> 200 invite 2 4098 x@far.example sip:y@far.example
reply 4098: 100 Trying, 7 INVITE
ask 4099 to 2: INVITE sip:y@far.example, 1 INVITE
due 4097 cap 1 at 180200
live 0 0 0 0
? asked 4098
-> 4097 caller
? find c4098 t-16385 a4098
-> 4097 caller
? party 4097
-> peer 2, no account
-> peer 2, no account
> 300 invite 2 4100 x@far.example sip:y@far.example
full 4100:
live 0 0 0 0
"#;

#[test]
fn limits(rt: HostRuntime) {
    assert_right(&rt, "LIMITS", wrong_call(rt.alloc(), LIMITS));
}
