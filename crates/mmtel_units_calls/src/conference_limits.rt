//! The maximum number of live conferences, and of participants.

use crate::asserting::assert_right;
use crate::conference_tables::wrong_participant;

/// Once 1,024 conferences are live, the next INVITE creates none, and its leg is handed back: no number is used. A conference that is closed makes space. There is no conference
/// 2000, and no second participant in the first.
/// Once 32 places of a conference are taken, no leg finds another, whether it comes or is adopted; where a user is to be invited the missing route is reported first. No number of
/// a participant is used twice.
const ROOM_LIMITS: &[u8] = br#"fill 1024 0 create
> 0 create 2 1024 x@far.example
no room: c1024 t-1025 a1024
seats 1 1 1
> 0 join 2000 2 1025 x@far.example
gone: c1025 t-1026 a1025
seats 1 1 1
> 0 leave 1 2
-> none
seats 1 1 1
? find c1023 t-1024 a1023
-> room 1024 seat 1
? find c1024 t-1025 a1024
-> none
> 100 close 7
-> no meter
seats 1 1 1
> 200 create 1 2000 alice@home.example
room 1025
reply 1026: 200 OK, 7 INVITE
due 1025 seat 1 no-ack 1 at 32200
seats 1 1 1
> 300 create 1 2001 alice@home.example
no room: c2001 t-1028 a2001
seats 1 1 1
fill 31 3000 join 1
> 400 join 1 2 4000 x@far.example
room full: c4000 t-1060 a4000
seats 32 1 1
> 500 adopt 1 1 2 4001 x@far.example callee
room full: k4001 t-1061 b4001
seats 32 1 1
> 510 adopt 2000 1 2 4002 x@far.example callee
gone: k4002 t-1062 b4002
seats 32 1 1
> 600 say 2 c0 t-1 a0 REFER 8 <sip:bob@home.example>
-> room 1 seat 1
reply 1060: 202 Accepted, 8 REFER
ask 1061 to 2: NOTIFY sip:caller@127.0.0.1:5072, 1 NOTIFY
 active;expires=180: SIP/2.0 100 Trying
ask 1062 to 2: NOTIFY sip:caller@127.0.0.1:5072, 2 NOTIFY
 terminated;reason=noresource: SIP/2.0 503 Service Unavailable
seats 32 1 1
> 700 say 2 c0 t-1 a0 REFER 9 <sip:bob@nowhere.example>
-> room 1 seat 1
reply 1063: 202 Accepted, 9 REFER
ask 1064 to 2: NOTIFY sip:caller@127.0.0.1:5072, 3 NOTIFY
 active;expires=180: SIP/2.0 100 Trying
ask 1065 to 2: NOTIFY sip:caller@127.0.0.1:5072, 4 NOTIFY
 terminated;reason=noresource: SIP/2.0 404 Not Found
seats 32 1 1
> 800 leave 1 32
-> none
seats 31 1 1
> 900 join 1 2 4003 x@far.example
reply 1066: 200 OK, 7 INVITE
due 1 seat 33 no-ack 33 at 32900
seats 32 1 1
"#;

#[test]
fn room_limits(rt: HostRuntime) {
    assert_right(
        &rt,
        "ROOM_LIMITS",
        wrong_participant(rt.alloc(), ROOM_LIMITS),
    );
}
