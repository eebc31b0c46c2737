//! The state machines of RFC 3261 (figures 5 to 8) with RFC 6026's 2xx, and two sequences that go through several of them.

use crate::asserting::assert_right;
use crate::transactions::calls::wrong_call;

/// A client INVITE transaction (figure 5): there is no response, so Timer A retransmits and Timer B fires; then a provisional response stops both; then a refusal, whose ACK is
/// retransmitted as often as the refusal is received again; then a 2xx, which is passed up each time. It ends 32 s after its first final.
const INVITE_CLIENT: &[u8] = b"begin 1> done
ask 7 1000 INVITE/a> asked 0
due 1499> nothing
due 1500> again 7 1500 INVITE sip:bob@home.example SIP/2.0
due 2499> nothing
due 2500> again 7 2500 INVITE sip:bob@home.example SIP/2.0
due 4500> again 7 4500 INVITE sip:bob@home.example SIP/2.0
due 8500> again 7 8500 INVITE sip:bob@home.example SIP/2.0
due 16500> again 7 16500 INVITE sip:bob@home.example SIP/2.0
due 32500> again 7 32500 INVITE sip:bob@home.example SIP/2.0
due 32999> nothing
due 33000> silent 0 33000 z9hG4bKa INVITE
peer 0> none
hear 7 33001 200/INVITE/a> stray
due 39999> nothing
ask 7 40000 INVITE/b> asked 1
due 40500> again 7 40500 INVITE sip:bob@home.example SIP/2.0
hear 7 40600 180/INVITE/b> answer 1
due 90000> nothing
hear 7 90000 180/INVITE/b> answer 1
hear 7 91000 486/INVITE/b> answer 1
ack 1 91000 ACK/b> done
hear 7 91500 486/INVITE/b> repeat 7 ACK sip:bob@home.example SIP/2.0
hear 7 92500 486/INVITE/b> repeat 7 ACK sip:bob@home.example SIP/2.0
hear 7 92600 180/INVITE/b> answer 1
due 122999> nothing
due 123000> over 1 123000
hear 7 123001 486/INVITE/b> stray
ask 7 130000 INVITE/c> asked 2
hear 7 130100 200/INVITE/c> answer 2
hear 7 130600 200/INVITE/c> answer 2
due 162099> nothing
due 162100> over 2 162100
hear 7 162200 200/INVITE/c> stray
";

/// A client transaction of another request (figure 6): Timer E doubles up to T2 and Timer F fires; after a provisional response it is retransmitted each T2 from then on, until 32
/// s after it was first sent; its final ends it.
const OTHER_CLIENT: &[u8] = b"begin 1> done
ask 7 1000 OPTIONS/a> asked 0
due 33000> again 7 1500 OPTIONS sip:bob@home.example SIP/2.0
due 33000> again 7 2500 OPTIONS sip:bob@home.example SIP/2.0
due 33000> again 7 4500 OPTIONS sip:bob@home.example SIP/2.0
due 33000> again 7 8500 OPTIONS sip:bob@home.example SIP/2.0
due 33000> again 7 12500 OPTIONS sip:bob@home.example SIP/2.0
due 33000> again 7 16500 OPTIONS sip:bob@home.example SIP/2.0
due 33000> again 7 20500 OPTIONS sip:bob@home.example SIP/2.0
due 33000> again 7 24500 OPTIONS sip:bob@home.example SIP/2.0
due 33000> again 7 28500 OPTIONS sip:bob@home.example SIP/2.0
due 33000> again 7 32500 OPTIONS sip:bob@home.example SIP/2.0
due 33000> silent 0 33000 z9hG4bKa OPTIONS
due 33000> nothing
ask 7 40000 OPTIONS/b> asked 1
hear 7 40100 100/OPTIONS/b> answer 1
hear 7 41000 100/OPTIONS/b> answer 1
due 44099> nothing
due 90000> again 7 44100 OPTIONS sip:bob@home.example SIP/2.0
due 90000> again 7 48100 OPTIONS sip:bob@home.example SIP/2.0
due 90000> again 7 52100 OPTIONS sip:bob@home.example SIP/2.0
due 90000> again 7 56100 OPTIONS sip:bob@home.example SIP/2.0
due 90000> again 7 60100 OPTIONS sip:bob@home.example SIP/2.0
due 90000> again 7 64100 OPTIONS sip:bob@home.example SIP/2.0
due 90000> again 7 68100 OPTIONS sip:bob@home.example SIP/2.0
due 90000> silent 1 72000 z9hG4bKb OPTIONS
due 90000> nothing
ask 7 100000 BYE/c> asked 2
hear 7 100100 200/BYE/c> answer 2
peer 2> none
hear 7 100200 200/BYE/c> stray
ask 7 200000 OPTIONS/d> asked 3
due 211500> again 7 200500 OPTIONS sip:bob@home.example SIP/2.0
due 211500> again 7 201500 OPTIONS sip:bob@home.example SIP/2.0
due 211500> again 7 203500 OPTIONS sip:bob@home.example SIP/2.0
due 211500> again 7 207500 OPTIONS sip:bob@home.example SIP/2.0
due 211500> again 7 211500 OPTIONS sip:bob@home.example SIP/2.0
hear 7 212000 100/OPTIONS/d> answer 3
due 240000> again 7 216000 OPTIONS sip:bob@home.example SIP/2.0
due 240000> again 7 220000 OPTIONS sip:bob@home.example SIP/2.0
due 240000> again 7 224000 OPTIONS sip:bob@home.example SIP/2.0
due 240000> again 7 228000 OPTIONS sip:bob@home.example SIP/2.0
due 240000> silent 3 232000 z9hG4bKd OPTIONS
due 240000> nothing
";

/// After its provisional response a request other than INVITE is retransmitted each T2 from then on, however long before the request that response is said to have been received,
/// and only before 32 s after the request was sent, when Timer F fires.
const SLOWLY: &[u8] = b"begin 1> done
ask 7 10000 OPTIONS/a> asked 0
hear 7 0 100/OPTIONS/a> answer 0
due 3999> nothing
due 41999> again 7 4000 OPTIONS sip:bob@home.example SIP/2.0
due 41999> again 7 8000 OPTIONS sip:bob@home.example SIP/2.0
due 41999> again 7 12000 OPTIONS sip:bob@home.example SIP/2.0
due 41999> again 7 16000 OPTIONS sip:bob@home.example SIP/2.0
due 41999> again 7 20000 OPTIONS sip:bob@home.example SIP/2.0
due 41999> again 7 24000 OPTIONS sip:bob@home.example SIP/2.0
due 41999> again 7 28000 OPTIONS sip:bob@home.example SIP/2.0
due 41999> again 7 32000 OPTIONS sip:bob@home.example SIP/2.0
due 41999> again 7 36000 OPTIONS sip:bob@home.example SIP/2.0
due 41999> again 7 40000 OPTIONS sip:bob@home.example SIP/2.0
due 41999> nothing
due 42000> silent 0 42000 z9hG4bKa OPTIONS
due 42000> nothing
";

/// A server INVITE transaction (figure 7, RFC 6026): retransmitted requests get the last provisional response and then the refusal; the refusal is retransmitted by Timer G until
/// its ACK, and the transaction ends by Timer H, or by Timer I after the ACK. A 2xx is retransmitted until its ACK, retransmitted requests get nothing, and the transaction ends by
/// Timer L whether the ACK was received or not.
const INVITE_SERVER: &[u8] = b"begin 1> done
hear 1 0 INVITE/a> fresh 0
hear 1 10 INVITE/a> repeat
reply 0 20 100/INVITE/a> done
hear 1 30 INVITE/a> repeat 1 SIP/2.0 100 Status
reply 0 40 180/INVITE/a> done
hear 1 50 INVITE/a> repeat 1 SIP/2.0 180 Status
due 999> nothing
reply 0 1000 486/INVITE/a> done
hear 1 1100 INVITE/a> repeat 1 SIP/2.0 486 Status
reply 0 1150 200/INVITE/a> done
reply 0 1150 180/INVITE/a> done
hear 1 1200 INVITE/a> repeat 1 SIP/2.0 486 Status
due 32999> again 1 1500 SIP/2.0 486 Status
due 32999> again 1 2500 SIP/2.0 486 Status
due 32999> again 1 4500 SIP/2.0 486 Status
due 32999> again 1 8500 SIP/2.0 486 Status
due 32999> again 1 12500 SIP/2.0 486 Status
due 32999> again 1 16500 SIP/2.0 486 Status
due 32999> again 1 20500 SIP/2.0 486 Status
due 32999> again 1 24500 SIP/2.0 486 Status
due 32999> again 1 28500 SIP/2.0 486 Status
due 32999> again 1 32500 SIP/2.0 486 Status
due 32999> nothing
due 33000> over 0 33000
hear 1 33001 ACK/a> ack of 2xx
hear 1 40000 INVITE/b> fresh 1
reply 1 40000 486/INVITE/b> done
due 40500> again 1 40500 SIP/2.0 486 Status
hear 1 40600 ACK/b> acked 1
hear 1 40700 INVITE/b> repeat
hear 1 41600 ACK/b> acked 1
due 45599> nothing
due 45600> over 1 45600
hear 1 50000 INVITE/c> fresh 2
reply 2 50000 200/INVITE/c> done
hear 1 50100 INVITE/c> repeat
due 50500> again 1 50500 SIP/2.0 200 Status
due 51500> again 1 51500 SIP/2.0 200 Status
hear 1 51600 ACK/d///u> ack of 2xx
due 53500> again 1 53500 SIP/2.0 200 Status
hear 1 53600 ACK/d> ack of 2xx
hear 1 53700 INVITE/c> repeat
due 81999> nothing
due 82000> over 2 82000
hear 1 90000 INVITE/e> fresh 3
reply 3 90000 200/INVITE/e> done
due 97500> again 1 90500 SIP/2.0 200 Status
due 97500> again 1 91500 SIP/2.0 200 Status
due 97500> again 1 93500 SIP/2.0 200 Status
due 97500> again 1 97500 SIP/2.0 200 Status
due 122000> again 1 101500 SIP/2.0 200 Status
due 122000> again 1 105500 SIP/2.0 200 Status
due 122000> again 1 109500 SIP/2.0 200 Status
due 122000> again 1 113500 SIP/2.0 200 Status
due 122000> again 1 117500 SIP/2.0 200 Status
due 122000> again 1 121500 SIP/2.0 200 Status
due 122000> over 3 122000
due 122000> nothing
";

/// A server transaction of another request (figure 8): retransmitted requests get the last response, which is not retransmitted by a timer; it ends by Timer J.
const OTHER_SERVER: &[u8] = b"begin 1> done
hear 1 0 OPTIONS/a> fresh 0
hear 1 10 OPTIONS/a> repeat
reply 0 20 100/OPTIONS/a> done
hear 1 30 OPTIONS/a> repeat 1 SIP/2.0 100 Status
reply 0 1000 200/OPTIONS/a> done
hear 1 1500 OPTIONS/a> repeat 1 SIP/2.0 200 Status
hear 1 32000 OPTIONS/a> repeat 1 SIP/2.0 200 Status
due 32999> nothing
due 33000> over 0 33000
hear 1 33001 OPTIONS/a> fresh 1
reply 1 40000 404/OPTIONS/a> done
hear 1 40001 OPTIONS/a> repeat 1 SIP/2.0 404 Status
due 71999> nothing
due 72000> over 1 72000
due 250000000000000> nothing
";

/// A retransmitted INVITE and its final, as a server between a caller (peer 1) and a callee (peer 2) has them.
const REPEATED_INVITE: &[u8] = b"begin 1> done
hear 1 0 INVITE/a> fresh 0
reply 0 0 100/INVITE/a> done
ask 2 0 INVITE/b> asked 1
begin 2> done
hear 2 100 180/INVITE/b> answer 1
reply 0 100 180/INVITE/a> done
begin 3> done
hear 1 200 INVITE/a> repeat 1 SIP/2.0 180 Status
begin 4> done
hear 2 300 486/INVITE/b> answer 1
ack 1 300 ACK/b> done
reply 0 300 486/INVITE/a> done
begin 5> done
hear 1 350 INVITE/a> repeat 1 SIP/2.0 486 Status
begin 6> done
hear 1 400 ACK/a> acked 0
begin 7> done
due 5399> nothing
hear 1 5399 INVITE/a> repeat
begin 8> done
due 5400> over 0 5400
due 5400> nothing
hear 1 5400 INVITE/a> fresh 2
";

/// No response: an INVITE to peer 1 without a response, and the next one to peer 2, up to 40,000 ms.
const SILENCE: &[u8] = b"begin 1> done
ask 1 0 INVITE/a> asked 0
begin 2> done
upcoming 40000> at 500 1
due 40000> again 1 500 INVITE sip:bob@home.example SIP/2.0
upcoming 40000> at 1500 2
due 40000> again 1 1500 INVITE sip:bob@home.example SIP/2.0
due 40000> again 1 3500 INVITE sip:bob@home.example SIP/2.0
due 40000> again 1 7500 INVITE sip:bob@home.example SIP/2.0
due 40000> again 1 15500 INVITE sip:bob@home.example SIP/2.0
due 40000> again 1 31500 INVITE sip:bob@home.example SIP/2.0
due 40000> silent 0 32000 z9hG4bKa INVITE
ask 2 32000 INVITE/b> asked 1
due 40000> again 2 32500 INVITE sip:bob@home.example SIP/2.0
due 40000> again 2 33500 INVITE sip:bob@home.example SIP/2.0
due 40000> again 2 35500 INVITE sip:bob@home.example SIP/2.0
due 40000> again 2 39500 INVITE sip:bob@home.example SIP/2.0
due 40000> nothing
upcoming 40000> nothing
";

#[test]
fn figures_and_sequences(rt: HostRuntime) {
    assert_right(&rt, "INVITE_CLIENT", wrong_call(rt.alloc(), INVITE_CLIENT));
    assert_right(&rt, "OTHER_CLIENT", wrong_call(rt.alloc(), OTHER_CLIENT));
    assert_right(&rt, "SLOWLY", wrong_call(rt.alloc(), SLOWLY));
    assert_right(&rt, "INVITE_SERVER", wrong_call(rt.alloc(), INVITE_SERVER));
    assert_right(&rt, "OTHER_SERVER", wrong_call(rt.alloc(), OTHER_SERVER));
    assert_right(
        &rt,
        "REPEATED_INVITE",
        wrong_call(rt.alloc(), REPEATED_INVITE),
    );
    assert_right(&rt, "SILENCE", wrong_call(rt.alloc(), SILENCE));
}
