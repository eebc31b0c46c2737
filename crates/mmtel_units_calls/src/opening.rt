//! How calls open: which identities are passed on to whom, what refuses them, and where they go.
//!
//! The identity of the caller as passed on to the target, and that of the target to the caller (TS 24.607 §4.5.2, TS 24.608 §4.5.2, RFC 3325 §7).
//! What refuses a call before it is offered (TS 24.611 §4.5.2, TS 24.615 §4.5.5), with its rows.
//! Waiting calls (TS 24.615 §4.5.5), the session cases (RFC 5502 §6), and routes (RFC 3261 §16.12).

use crate::asserting::assert_right;
use crate::call_tables::wrong_step;

const OPENING: &[u8] = br#"# a caller who hides nothing
> 0 invite 1 erin@other.example sip:bob@far.example
reply 0: 100 Trying, 7 INVITE
ask 1 to 2: INVITE sip:bob@far.example, 1 INVITE
 P-Asserted-Identity: <sip:erin@other.example>
due cap 1 at 180000
-> asked
# a record that restricts by default, and a caller who asks for no privacy
> record 1 oir temporary
>> 0 invite 1 alice@home.example sip:bob@far.example|Privacy: none
reply 0:
SIP/2.0 100 Trying
Via: SIP/2.0/UDP 127.0.0.1:5071;branch=z9hG4bKr0
From: "Caller" <sip:alice@home.example>;tag=a
To: <sip:bob@far.example>
Call-ID: c1
CSeq: 7 INVITE
Content-Length: 0

ask 1 to 2:
INVITE sip:bob@far.example SIP/2.0
Via: SIP/2.0/UDP 127.0.0.1:5060;branch=z9hG4bK0123456789abcdef-4
Max-Forwards: 67
From: "Caller" <sip:alice@home.example>;tag=0123456789abcdef-3
To: <sip:bob@far.example>
Call-ID: 0123456789abcdef-2
CSeq: 1 INVITE
Contact: <sip:127.0.0.1:5060>
P-Asserted-Identity: <sip:alice@home.example>
Content-Length: 0

due cap 1 at 180000
-> asked
# the same record, and a caller who asks for nothing
> record 1 oir temporary
> 0 invite 1 alice@home.example sip:bob@far.example
reply 0: 100 Trying, 7 INVITE
ask 1 to 2: INVITE sip:bob@far.example, 1 INVITE
due cap 1 at 180000
-> asked
# a record that restricts always
> record 1 oir permanent
> 0 invite 1 alice@home.example sip:bob@far.example|Privacy: none|Subject: s
reply 0: 100 Trying, 7 INVITE
ask 1 to 2: INVITE sip:bob@far.example, 1 INVITE
due cap 1 at 180000
-> asked
# an untrusted peer's word on its caller is not believed, so the caller counts as nobody, and not as one who hides
> record 2 no-anonymous
> 0 invite 2 erin@other.example sip:bob@home.example|Privacy: id
reply 0: 100 Trying, 7 INVITE
ask 1 to 1: INVITE sip:bob@home.example, 1 INVITE
 Privacy: id
due cap 1 at 180000
-> asked
# neither the callee is shown who calls nor the caller who answers, where their records do not have it
> record 1 no-tip
> record 2 no-oip
> 0 invite 1 alice@home.example sip:bob@home.example
reply 0: 100 Trying, 7 INVITE
ask 1 to 1: INVITE sip:bob@home.example, 1 INVITE
due cap 1 at 180000
-> asked
> 200 answer 1 b 200 OK|P-Asserted-Identity: <sip:bob@home.example>|Subject: s|User-Agent: u
reply 0: 200 OK, 7 INVITE
 Subject: s
 User-Agent: u
due no-ack 1 at 32200
-> answered caller
# a callee whose record restricts always, and a caller of the trust domain
> record 2 tir permanent
> 0 invite 1 alice@home.example sip:bob@home.example
reply 0: 100 Trying, 7 INVITE
ask 1 to 1: INVITE sip:bob@home.example, 1 INVITE
 P-Asserted-Identity: <sip:alice@home.example>
due cap 1 at 180000
-> asked
> 200 answer 1 b 200 OK|P-Asserted-Identity: <sip:bob@home.example>|Subject: s|User-Agent: u|Privacy: none;user
reply 0: 200 OK, 7 INVITE
 P-Asserted-Identity: <sip:bob@home.example>
 Privacy: user;id
due no-ack 1 at 32200
-> answered caller
# the same callee, and a caller outside it
> record 2 tir permanent
> 0 invite 2 erin@other.example sip:bob@home.example
reply 0: 100 Trying, 7 INVITE
ask 1 to 1: INVITE sip:bob@home.example, 1 INVITE
due cap 1 at 180000
-> asked
> 200 answer 1 b 200 OK|P-Asserted-Identity: <sip:bob@home.example>|Subject: s|User-Agent: u
reply 0: 200 OK, 7 INVITE
due no-ack 1 at 32200
-> answered caller
# a target outside it, which is not believed, and is told who calls, since nobody hides
> 0 invite 1 alice@home.example sip:bob@far.example
reply 0: 100 Trying, 7 INVITE
ask 1 to 2: INVITE sip:bob@far.example, 1 INVITE
 P-Asserted-Identity: <sip:alice@home.example>
due cap 1 at 180000
-> asked
> 200 answer 1 b 200 OK|P-Asserted-Identity: <sip:bob@far.example>
reply 0: 200 OK, 7 INVITE
due no-ack 1 at 32200
-> answered caller
> 300 caller ACK 7
plain to 2: ACK sip:b@127.0.0.1:5072, 1 ACK
-> talking
> 400 far INVITE 1|P-Asserted-Identity: <sip:bob@far.example>|Subject: s
reply 2: 100 Trying, 1 INVITE
ask 3 to 1: INVITE sip:caller@127.0.0.1:5071, 1 INVITE
 Subject: s
-> asking callee
> 410 answer 3 - 200 OK|P-Asserted-Identity: <sip:alice@home.example>
reply 2: 200 OK, 1 INVITE
 P-Asserted-Identity: <sip:alice@home.example>
due no-ack 2 at 32410
-> answered callee
> 420 far ACK 1
plain to 1: ACK sip:caller@127.0.0.1:5071, 1 ACK
-> talking
> 500 far BYE 2
reply 4: 200 OK, 2 BYE
ask 5 to 1: BYE sip:caller@127.0.0.1:5071, 2 BYE
origin,1,1,0,200,500,0,ended,0
-> over ended
# barred for all
> record 2 bar
> 0 invite 1 alice@home.example sip:bob@home.example
reply 0: 100 Trying, 7 INVITE
reply 0: 603 Decline, 7 INVITE
origin,1,1,0,,0,0,incoming-barred,603
terminating,2,1,0,,0,0,incoming-barred,603
-> over incoming-barred
# but not for her
> record 2 bar|allow sip:alice@home.example
> 0 invite 1 alice@home.example sip:bob@home.example
reply 0: 100 Trying, 7 INVITE
ask 1 to 1: INVITE sip:bob@home.example, 1 INVITE
 P-Asserted-Identity: <sip:alice@home.example>
due cap 1 at 180000
-> asked
# nobody who hides is let through, and a diversion of each call comes after that
> record 2 divert always sip:vm@far.example|no-anonymous
> 0 invite 1 erin@other.example sip:bob@home.example|Privacy: id
reply 0: 100 Trying, 7 INVITE
reply 0: 433 Anonymity Disallowed, 7 INVITE
terminating,2,1,0,,0,0,anonymous,433
-> over anonymous
# barred on its way out
> record 1 bar-out sip:bob@far.example
> 0 invite 1 alice@home.example sip:bob@far.example
reply 0: 100 Trying, 7 INVITE
reply 0: 603 Decline, 7 INVITE
origin,1,1,0,,0,0,outgoing-barred,603
-> over outgoing-barred
# privacy of the session cannot be had
> 0 invite 1 alice@home.example sip:bob@home.example|Privacy: session;critical
reply 0: 100 Trying, 7 INVITE
reply 0: 500 Server Internal Error, 7 INVITE
origin,1,1,0,,0,0,critical,500
-> over critical
# nobody of that name at home
> 0 invite 1 alice@home.example sip:nobody@home.example
reply 0: 100 Trying, 7 INVITE
reply 0: 404 Not Found, 7 INVITE
origin,1,1,0,,0,0,no-account,404
-> over no-account
# a served user of no account
> 0 invite 1 alice@home.example sip:bob@home.example|P-Served-User: <sip:nobody@home.example>;sescase=term
reply 0: 100 Trying, 7 INVITE
reply 0: 404 Not Found, 7 INVITE
-> over no-account
# no peer leads there
> 0 invite 1 alice@home.example sip:x@nowhere.example
reply 0: 100 Trying, 7 INVITE
reply 0: 404 Not Found, 7 INVITE
origin,1,1,0,,0,0,no-route,404
-> over no-route
# not registered
> away 2
> 2000 invite 1 alice@home.example sip:bob@home.example
reply 0: 100 Trying, 7 INVITE
reply 0: 480 Temporarily Unavailable, 7 INVITE
origin,1,1,2000,,2000,0,not-registered,480
terminating,2,1,2000,,2000,0,not-registered,480
-> over not-registered
# in as many calls as may be
> record 2 waiting 2
> busy 2
> busy 2
> 0 invite 1 alice@home.example sip:bob@home.example
reply 0: 100 Trying, 7 INVITE
reply 0: 486 Busy Here, 7 INVITE
origin,1,1,0,,0,0,network-busy,486
terminating,2,1,0,,0,0,network-busy,486
-> over network-busy
# in one call, and may have two
> record 2 waiting 2
> busy 2
> 0 invite 1 alice@home.example sip:bob@home.example
reply 0: 100 Trying, 7 INVITE
ask 1 to 1: INVITE sip:bob@home.example, 1 INVITE
 P-Asserted-Identity: <sip:alice@home.example>
 Alert-Info: <urn:alert:service:call-waiting>
due cap 1 at 180000
-> asked
# in no call, and may have two
> record 2 waiting 2
> busy 3
> 0 invite 1 alice@home.example sip:bob@home.example
reply 0: 100 Trying, 7 INVITE
ask 1 to 1: INVITE sip:bob@home.example, 1 INVITE
 P-Asserted-Identity: <sip:alice@home.example>
due cap 1 at 180000
-> asked
# the caller's services alone, so the target's account has no row
> record 2 divert always sip:carol@home.example
> 0 invite 1 alice@home.example sip:bob@home.example|P-Served-User: <sip:alice@home.example>;sescase=orig
reply 0: 100 Trying, 7 INVITE
ask 1 to 1: INVITE sip:bob@home.example, 1 INVITE
 P-Asserted-Identity: <sip:alice@home.example>
due cap 1 at 180000
-> asked
> 100 cancel 0 7
reply 2: 200 OK, 7 CANCEL
reply 0: 487 Request Terminated, 7 INVITE
origin,1,1,0,,100,0,cancelled,487
-> over cancelled, loose 1
# the target's services alone, and a diverted target without its own, so the caller has no row
> record 2 divert always sip:carol@home.example
> record 3 divert always sip:vm@far.example
> 0 invite 1 alice@home.example sip:bob@home.example|P-Served-User: <sip:bob@home.example>;sescase=term
reply 0: 100 Trying, 7 INVITE
reply 0: 181 Call Is Being Forwarded, 7 INVITE
 History-Info: <sip:bob@home.example>;index=1
 History-Info: <sip:carol@home.example;cause=302>;index=1.1
ask 1 to 1: INVITE sip:carol@home.example;cause=302, 1 INVITE
 P-Asserted-Identity: <sip:alice@home.example>
 History-Info: <sip:bob@home.example>;index=1
 History-Info: <sip:carol@home.example;cause=302>;index=1.1
due cap 1 at 180000
-> asked
> 100 cancel 0 7
reply 2: 200 OK, 7 CANCEL
reply 0: 487 Request Terminated, 7 INVITE
terminating,2,1,0,,100,0,cancelled,487
diversion,2,1,0,,100,0,cancelled,487
-> over cancelled, loose 1
# a route of the core, which decides where the call goes
> 0 invite 1 alice@home.example sip:bob@home.example|Route: <sip:127.0.0.1:5060;lr>, <sip:edge@far.example;lr>, <sip:two@x>
reply 0: 100 Trying, 7 INVITE
ask 1 to 2: INVITE sip:bob@home.example, 1 INVITE
 Route: <sip:edge@far.example;lr>
 Route: <sip:two@x>
 P-Asserted-Identity: <sip:alice@home.example>
due cap 1 at 180000
-> asked
"#;

#[test]
fn opening(rt: HostRuntime) {
    assert_right(&rt, "OPENING", wrong_step(rt.alloc(), OPENING));
}
