//! Which message matches which transaction (RFC 3261 §17.1.3, §17.2.3, §9.2, §8.2.2.2), and the order of deadlines.

use crate::asserting::assert_right;
use crate::transactions::calls::wrong_call;

/// Branch, sent-by and method identify a server transaction, an ACK by its INVITE; branch and CSeq method a client transaction. A retransmission from another peer gets nothing; an
/// ACK and a response count whoever sends them.
const KEYS: &[u8] = b"begin 1> done
hear 1 0 INVITE/a> fresh 0
hear 1 0 INVITE/b> fresh 1
hear 1 0 INVITE/a/127.0.0.1:5072> fresh 2
hear 1 0 OPTIONS/a> fresh 3
hear 1 0 INVITE/a//other/other/other/9> repeat
reply 0 10 180/INVITE/a> done
hear 2 20 INVITE/a> repeat
hear 1 20 INVITE/a> repeat 1 SIP/2.0 180 Status
peer 0> of 1
peer 9> none
hear 1 30 CANCEL/a> cancel 4 0
hear 1 30 CANCEL/a> repeat
hear 1 30 CANCEL/a/127.0.0.1:5073> cancel 5
hear 1 30 CANCEL/c> cancel 6
hear 1 30 ACK/a> ack of 2xx
reply 0 40 487/INVITE/a> done
hear 1 40 ACK/a/127.0.0.1:5072> ack of 2xx
hear 2 40 ACK/a//other> acked 0
ask 7 50 OPTIONS/z> asked 7
ask 8 50 OPTIONS/z> asked 8
ask 8 50 INVITE/z> asked 9
hear 8 60 200/OPTIONS/z/127.0.0.1:9/x/x/x/9> answer 7
hear 8 60 200/OPTIONS/z> answer 8
hear 8 60 200/OPTIONS/z> stray
hear 8 60 100/INVITE/z> answer 9
hear 8 60 100/INVITE/y> stray
peer 7> none
peer 9> of 8
";

/// The ACK of a 2xx is matched by Call-ID, both tags and the number of CSeq, and ends the retransmission of each 2xx that it acknowledges; one that has the key of an INVITE with a
/// refusal is of that alone.
const ACKS: &[u8] = b"begin 1> done
hear 1 0 INVITE/a> fresh 0
reply 0 0 200/INVITE/a> done
hear 1 0 ACK/x//g> ack of 2xx
hear 1 0 ACK/x///u> ack of 2xx
hear 1 0 ACK/x////d> ack of 2xx
hear 1 0 ACK/x/////2> ack of 2xx
due 500> again 1 500 SIP/2.0 200 Status
hear 1 600 INVITE/b> fresh 1
reply 1 600 491/INVITE/b> done
hear 1 700 ACK/b> acked 1
due 1500> again 1 1500 SIP/2.0 200 Status
hear 2 1600 ACK/x/////1> ack of 2xx
due 3500> nothing
due 31999> over 1 5700
due 32000> over 0 32000
due 32000> nothing
";

/// Another request of one From tag, Call-ID and CSeq, which came by another path, is merged; CSeq is number and method, and the number counts as a number.
const MERGED: &[u8] = b"begin 1> done
hear 1 0 INVITE/a> fresh 0
merged 0> no
hear 1 0 CANCEL/a> cancel 1 0
merged 1> no
hear 1 0 INVITE/b//g> fresh 2
hear 1 0 INVITE/c////d> fresh 3
hear 1 0 INVITE/d/////2> fresh 4
merged 4> no
ask 1 0 INVITE/e> asked 5
hear 1 0 100/INVITE/e> answer 5
merged 0> no
hear 2 0 INVITE/f/127.0.0.1:5072///c/01> fresh 6
merged 6> yes
merged 0> yes
merged 2> no
merged 3> no
merged 9> no
reply 0 0 486/INVITE/a> done
hear 1 0 ACK/a> acked 0
due 5000> over 0 5000
merged 6> no
";

/// Deadlines fire by moment; of one moment, by the step that armed them; of one step, by the order in which their messages were sent.
const ORDER: &[u8] = b"begin 1> done
ask 1 0 OPTIONS/a> asked 0
ask 2 0 OPTIONS/b> asked 1
begin 2> done
ask 3 1000 OPTIONS/c> asked 2
begin 3> done
upcoming 9999> at 500 1
due 9999> again 1 500 OPTIONS sip:bob@home.example SIP/2.0
begin 4> done
due 9999> again 2 500 OPTIONS sip:bob@home.example SIP/2.0
upcoming 1499> nothing
upcoming 1500> at 1500 2
due 1500> again 3 1500 OPTIONS sip:bob@home.example SIP/2.0
upcoming 1500> at 1500 3
due 1500> again 1 1500 OPTIONS sip:bob@home.example SIP/2.0
due 1500> again 2 1500 OPTIONS sip:bob@home.example SIP/2.0
due 1500> nothing
due 3000> again 3 2500 OPTIONS sip:bob@home.example SIP/2.0
due 3500> again 1 3500 OPTIONS sip:bob@home.example SIP/2.0
due 3500> again 2 3500 OPTIONS sip:bob@home.example SIP/2.0
";

#[test]
fn keys_and_order(rt: HostRuntime) {
    assert_right(&rt, "KEYS", wrong_call(rt.alloc(), KEYS));
    assert_right(&rt, "ACKS", wrong_call(rt.alloc(), ACKS));
    assert_right(&rt, "MERGED", wrong_call(rt.alloc(), MERGED));
    assert_right(&rt, "ORDER", wrong_call(rt.alloc(), ORDER));
}
