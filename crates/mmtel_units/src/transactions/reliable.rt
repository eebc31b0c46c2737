//! Reliable provisional responses, which are retransmitted until their PRACK (RFC 3262 §3).

use crate::asserting::assert_right;
use crate::transactions::calls::wrong_call;

/// There is no PRACK: the response is retransmitted at the moments of an INVITE, and a retransmitted INVITE gets it too.
const UNACKNOWLEDGED: &[u8] = b"begin 1> done
hear 1 0 INVITE/a> fresh 0
reply 0 100 183/INVITE/a//////900> done
upcoming 599> nothing
upcoming 600> at 600 1
due 599> nothing
due 600> again 1 600 SIP/2.0 183 Status
due 1599> nothing
due 1600> again 1 1600 SIP/2.0 183 Status
due 3600> again 1 3600 SIP/2.0 183 Status
due 7600> again 1 7600 SIP/2.0 183 Status
due 15600> again 1 15600 SIP/2.0 183 Status
due 31599> nothing
due 31600> again 1 31600 SIP/2.0 183 Status
upcoming 31600> nothing
due 200000> nothing
hear 1 200000 INVITE/a> repeat 1 SIP/2.0 183 Status
";

/// Each response has moments of its own and is settled alone, or all are; a retransmission of the INVITE gets the last response, whichever is retransmitted.
const SETTLED: &[u8] = b"begin 1> done
hear 1 0 INVITE/a> fresh 0
reply 0 0 183/INVITE/a//////1> done
reply 0 200 180/INVITE/a//////2> done
reply 0 300 182/INVITE/a> done
due 500> again 1 500 SIP/2.0 183 Status
due 500> nothing
hear 1 600 INVITE/a> repeat 1 SIP/2.0 182 Status
due 700> again 1 700 SIP/2.0 180 Status
settle 0 2> done
settle 0 3> done
settle 1 1> done
due 1500> again 1 1500 SIP/2.0 183 Status
due 1700> nothing
reply 0 2000 183/INVITE/a//////3> done
reply 0 2000 180/INVITE/a//////4> done
due 2500> again 1 2500 SIP/2.0 183 Status
due 2500> again 1 2500 SIP/2.0 180 Status
due 2500> nothing
settle 0> done
upcoming 2500> nothing
due 40000> nothing
hear 1 40000 INVITE/a> repeat 1 SIP/2.0 180 Status
";

/// A final response is sent in their place: a 2xx (RFC 6026) and a refusal, retransmitted as usual; one without a number, and one of an invalid number, are sent once.
const FINAL: &[u8] = b"begin 1> done
hear 1 0 INVITE/a> fresh 0
reply 0 0 183/INVITE/a//////1> done
reply 0 100 180/INVITE/a//////2> done
reply 0 400 200/INVITE/a> done
due 500> nothing
due 900> again 1 900 SIP/2.0 200 Status
due 1500> nothing
hear 1 1600 ACK/b> ack of 2xx
due 31000> nothing
due 32400> over 0 32400
hear 1 50000 INVITE/c> fresh 1
reply 1 50000 183/INVITE/c//////1> done
reply 1 50100 486/INVITE/c> done
due 50500> nothing
due 50600> again 1 50600 SIP/2.0 486 Status
hear 1 50700 ACK/c> acked 1
due 51500> nothing
due 55700> over 1 55700
hear 1 60000 INVITE/d> fresh 2
reply 2 60000 183/INVITE/d//////2147483648> done
reply 2 60000 183/INVITE/d//////x> done
reply 2 60000 100/INVITE/d//////1> done
upcoming 60000> nothing
";

#[test]
fn reliable_answers(rt: HostRuntime) {
    assert_right(
        &rt,
        "UNACKNOWLEDGED",
        wrong_call(rt.alloc(), UNACKNOWLEDGED),
    );
    assert_right(&rt, "SETTLED", wrong_call(rt.alloc(), SETTLED));
    assert_right(&rt, "FINAL", wrong_call(rt.alloc(), FINAL));
}
