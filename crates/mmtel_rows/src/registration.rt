//! Registrations (3GPP TS 24.229 §5.7.1.1; RFC 3261 §10.3): a trusted peer sends REGISTER for an account that registered, or whose registration ended.

use crate::asserting::assert_right;
use crate::cases::wrong_run;

const REGISTRATIONS: &[u8] =
    br#"~ Bob's registration ends, told again a second later; one of no account here; for the longest time, and for no time; bob's from a peer that is not trusted.
at 0 peer 1|REGISTER sip:home.example SIP/2.0|Via: SIP/2.0/UDP 127.0.0.1:5071;branch=z9hG4bKreg|Max-Forwards: 68|From: <sip:scscf@home.example>;tag=r
|To: <sip:bob@home.example>|Call-ID: reg1|CSeq: 1 REGISTER|Expires: 0|Content-Length: 0|
at 1000 peer 1|REGISTER sip:home.example SIP/2.0|Via: SIP/2.0/UDP 127.0.0.1:5071;branch=z9hG4bKreg|Max-Forwards: 68|From: <sip:scscf@home.example>;tag=r
|To: <sip:bob@home.example>|Call-ID: reg1|CSeq: 1 REGISTER|Expires: 0|Content-Length: 0|
at 2000 peer 1|REGISTER sip:home.example SIP/2.0|Via: SIP/2.0/UDP 127.0.0.1:5071;branch=z9hG4bKnobody|Max-Forwards: 68|From: <sip:scscf@home.example>;tag=r
|To: <sip:nobody@home.example>|Call-ID: reg2|CSeq: 1 REGISTER|Expires: 0|Content-Length: 0|
at 3000 peer 1|REGISTER sip:home.example SIP/2.0|Via: SIP/2.0/UDP 127.0.0.1:5071;branch=z9hG4bKlong|Max-Forwards: 68|From: <sip:scscf@home.example>;tag=r
|To: <tel:+4930111>|Call-ID: reg3|CSeq: 1 REGISTER|Expires: 4294967295|Content-Length: 0|
at 4000 peer 1|REGISTER sip:home.example SIP/2.0|Via: SIP/2.0/UDP 127.0.0.1:5071;branch=z9hG4bKuntold|Max-Forwards: 68|From: <sip:scscf@home.example>;tag=r
|To: <sip:carol@home.example>|Call-ID: reg4|CSeq: 1 REGISTER|Content-Length: 0|
at 5000 peer 2|REGISTER sip:home.example SIP/2.0|Via: SIP/2.0/UDP 127.0.0.1:5072;branch=z9hG4bKreg|Max-Forwards: 68|From: <sip:scscf@home.example>;tag=r
|To: <sip:bob@home.example>|Call-ID: reg5|CSeq: 1 REGISTER|Expires: 0|Content-Length: 0|
~ 200, and the same again; 404; 200 twice; 403.
at 0 to 1|SIP/2.0 200 OK|Via: SIP/2.0/UDP 127.0.0.1:5071;branch=z9hG4bKreg|From: <sip:scscf@home.example>;tag=r|To: <sip:bob@home.example>;tag=0123456789abcdef-1
|Call-ID: reg1|CSeq: 1 REGISTER|Content-Length: 0|
at 1000 to 1|SIP/2.0 200 OK|Via: SIP/2.0/UDP 127.0.0.1:5071;branch=z9hG4bKreg|From: <sip:scscf@home.example>;tag=r|To: <sip:bob@home.example>;tag=0123456789abcdef-1
|Call-ID: reg1|CSeq: 1 REGISTER|Content-Length: 0|
at 2000 to 1|SIP/2.0 404 Not Found|Via: SIP/2.0/UDP 127.0.0.1:5071;branch=z9hG4bKnobody|From: <sip:scscf@home.example>;tag=r
|To: <sip:nobody@home.example>;tag=0123456789abcdef-2|Call-ID: reg2|CSeq: 1 REGISTER|Content-Length: 0|
at 3000 to 1|SIP/2.0 200 OK|Via: SIP/2.0/UDP 127.0.0.1:5071;branch=z9hG4bKlong|From: <sip:scscf@home.example>;tag=r|To: <tel:+4930111>;tag=0123456789abcdef-3
|Call-ID: reg3|CSeq: 1 REGISTER|Content-Length: 0|
at 4000 to 1|SIP/2.0 200 OK|Via: SIP/2.0/UDP 127.0.0.1:5071;branch=z9hG4bKuntold|From: <sip:scscf@home.example>;tag=r|To: <sip:carol@home.example>;tag=0123456789abcdef-4
|Call-ID: reg4|CSeq: 1 REGISTER|Content-Length: 0|
at 5000 to 2|SIP/2.0 403 Forbidden|Via: SIP/2.0/UDP 127.0.0.1:5072;branch=z9hG4bKreg|From: <sip:scscf@home.example>;tag=r
|To: <sip:bob@home.example>;tag=0123456789abcdef-5|Call-ID: reg5|CSeq: 1 REGISTER|Content-Length: 0|
"#;

#[test]
fn registrations(rt: HostRuntime) {
    assert_right(&rt, "REGISTRATIONS", wrong_run(rt.alloc(), REGISTRATIONS));
}
