//! Conferences: INVITEs to the factory URI and to conferences, referrals, legs that are taken out of their calls by Replaces, and full conferences (RFC 4579 §5, RFC 3515 §2.4, RFC
//! 3891 §3).

use crate::asserting::assert_right;
use crate::cases::wrong_run;

/// A conference from its creation to its end, and INVITEs that are refused.
const ROOMS: &[u8] =
    br#"~ Alice talks with bob, asks the factory for a room, and has bob's leg taken over into it (RFC 3891 section 3); he hangs up, and she closes the room.
at 0 peer 1|INVITE sip:bob@home.example SIP/2.0|Via: SIP/2.0/UDP 127.0.0.1:5071;branch=z9hG4bKc1|Max-Forwards: 68|From: "Alice" <sip:alice@home.example>;tag=t1
|To: <sip:bob@home.example>|Call-ID: call1|CSeq: 7 INVITE|Contact: <sip:alice@127.0.0.1:5071>|P-Asserted-Identity: <sip:alice@home.example>|Content-Length: 0|
at 200 peer 1|SIP/2.0 200 OK|Via: SIP/2.0/UDP 127.0.0.1:5060;branch=z9hG4bK0123456789abcdef-4|From: "Alice" <sip:alice@home.example>;tag=0123456789abcdef-3
|To: <sip:bob@home.example>;tag=b1|Call-ID: 0123456789abcdef-2|CSeq: 1 INVITE|Contact: <sip:bob1@127.0.0.1:5071>|Content-Length: 0|
at 300 peer 1|ACK sip:127.0.0.1:5060 SIP/2.0|Via: SIP/2.0/UDP 127.0.0.1:5071;branch=z9hG4bKk1|Max-Forwards: 68|From: "Alice" <sip:alice@home.example>;tag=t1
|To: <sip:bob@home.example>;tag=0123456789abcdef-1|Call-ID: call1|CSeq: 7 ACK|Content-Length: 0|
at 1000 peer 1|INVITE sip:conf@home.example SIP/2.0|Via: SIP/2.0/UDP 127.0.0.1:5071;branch=z9hG4bKc2|Max-Forwards: 68|From: "Alice" <sip:alice@home.example>;tag=t2
|To: <sip:conf@home.example>|Call-ID: call2|CSeq: 7 INVITE|Contact: <sip:alice@127.0.0.1:5071>|P-Asserted-Identity: <sip:alice@home.example>|Content-Type: application/sdp
|Content-Length: 123||v=0|o=- 1 1 IN IP4 127.0.0.1|s=-|c=IN IP4 127.0.0.1|t=0 0|m=audio 5004 RTP/AVP 8 0|a=rtpmap:8 PCMA/8000|a=sendrecv
at 1100 peer 1|ACK sip:room-1@127.0.0.1:5060 SIP/2.0|Via: SIP/2.0/UDP 127.0.0.1:5071;branch=z9hG4bKk2|Max-Forwards: 68|From: "Alice" <sip:alice@home.example>;tag=t2
|To: <sip:conf@home.example>;tag=0123456789abcdef-6|Call-ID: call2|CSeq: 7 ACK|Content-Length: 0|
at 2000 peer 1|REFER sip:room-1@127.0.0.1:5060 SIP/2.0|Via: SIP/2.0/UDP 127.0.0.1:5071;branch=z9hG4bKr1|Max-Forwards: 68|From: "Alice" <sip:alice@home.example>;tag=t2
|To: <sip:conf@home.example>;tag=0123456789abcdef-6|Call-ID: call2|CSeq: 8 REFER
|Refer-To: <sip:bob@home.example?Replaces=call1%3Bto-tag%3D0123456789abcdef-1%3Bfrom-tag%3Dt1>|Content-Length: 0|
at 2010 peer 1|SIP/2.0 200 OK|Via: SIP/2.0/UDP 127.0.0.1:5060;branch=z9hG4bK0123456789abcdef-7|From: <sip:conf@home.example>;tag=0123456789abcdef-6
|To: "Alice" <sip:alice@home.example>;tag=t2|Call-ID: call2|CSeq: 1 NOTIFY|Content-Length: 0|
at 2020 peer 1|SIP/2.0 200 OK|Via: SIP/2.0/UDP 127.0.0.1:5060;branch=z9hG4bK0123456789abcdef-9|From: <sip:bob@home.example>;tag=0123456789abcdef-1
|To: "Alice" <sip:alice@home.example>;tag=t1|Call-ID: call1|CSeq: 1 BYE|Content-Length: 0|
at 2100 peer 1|SIP/2.0 200 OK|Via: SIP/2.0/UDP 127.0.0.1:5060;branch=z9hG4bK0123456789abcdef-8|From: "Alice" <sip:alice@home.example>;tag=0123456789abcdef-3
|To: <sip:bob@home.example>;tag=b1|Call-ID: 0123456789abcdef-2|CSeq: 2 INVITE|Contact: <sip:bob1@127.0.0.1:5071>|Content-Length: 0|
at 2110 peer 1|SIP/2.0 200 OK|Via: SIP/2.0/UDP 127.0.0.1:5060;branch=z9hG4bK0123456789abcdef-11|From: <sip:conf@home.example>;tag=0123456789abcdef-6
|To: "Alice" <sip:alice@home.example>;tag=t2|Call-ID: call2|CSeq: 2 NOTIFY|Content-Length: 0|
at 3000 peer 1|BYE sip:127.0.0.1:5060 SIP/2.0|Via: SIP/2.0/UDP 127.0.0.1:5071;branch=z9hG4bKbye1|Max-Forwards: 68|From: <sip:bob@home.example>;tag=b1
|To: "Alice" <sip:alice@home.example>;tag=0123456789abcdef-3|Call-ID: 0123456789abcdef-2|CSeq: 1 BYE|Content-Length: 0|
at 3001 web|GET /charges HTTP/1.1|X-3GPP-Asserted-Identity: "sip:op@home.example"|
at 4000 peer 1|BYE sip:room-1@127.0.0.1:5060 SIP/2.0|Via: SIP/2.0/UDP 127.0.0.1:5071;branch=z9hG4bKy2|Max-Forwards: 68|From: "Alice" <sip:alice@home.example>;tag=t2
|To: <sip:conf@home.example>;tag=0123456789abcdef-6|Call-ID: call2|CSeq: 9 BYE|Content-Length: 0|
at 4001 web|GET /charges HTTP/1.1|X-3GPP-Asserted-Identity: "sip:op@home.example"|
~ A room with the mixer's answer; 202, NOTIFY of 100, bob's INVITE with the mixer's offer and BYE to alice; his ACK and NOTIFY of 200; rows of both calls and of both seats.
at 0 to 1|SIP/2.0 100 Trying|Via: SIP/2.0/UDP 127.0.0.1:5071;branch=z9hG4bKc1|From: "Alice" <sip:alice@home.example>;tag=t1|To: <sip:bob@home.example>|Call-ID: call1
|CSeq: 7 INVITE|Content-Length: 0|
at 0 to 1|INVITE sip:bob@home.example SIP/2.0|Via: SIP/2.0/UDP 127.0.0.1:5060;branch=z9hG4bK0123456789abcdef-4|Max-Forwards: 67
|From: "Alice" <sip:alice@home.example>;tag=0123456789abcdef-3|To: <sip:bob@home.example>|Call-ID: 0123456789abcdef-2|CSeq: 1 INVITE|Contact: <sip:127.0.0.1:5060>
|P-Asserted-Identity: <sip:alice@home.example>|Content-Length: 0|
at 200 to 1|SIP/2.0 200 OK|Via: SIP/2.0/UDP 127.0.0.1:5071;branch=z9hG4bKc1|From: "Alice" <sip:alice@home.example>;tag=t1
|To: <sip:bob@home.example>;tag=0123456789abcdef-1|Call-ID: call1|CSeq: 7 INVITE|Contact: <sip:127.0.0.1:5060>|Content-Length: 0|
at 300 to 1|ACK sip:bob1@127.0.0.1:5071 SIP/2.0|Via: SIP/2.0/UDP 127.0.0.1:5060;branch=z9hG4bK0123456789abcdef-5|Max-Forwards: 67
|From: "Alice" <sip:alice@home.example>;tag=0123456789abcdef-3|To: <sip:bob@home.example>;tag=b1|Call-ID: 0123456789abcdef-2|CSeq: 1 ACK|Content-Length: 0|
at 1000 to 1|SIP/2.0 200 OK|Via: SIP/2.0/UDP 127.0.0.1:5071;branch=z9hG4bKc2|From: "Alice" <sip:alice@home.example>;tag=t2
|To: <sip:conf@home.example>;tag=0123456789abcdef-6|Call-ID: call2|CSeq: 7 INVITE|Contact: <sip:room-1@127.0.0.1:5060>;isfocus|Content-Type: application/sdp
|Content-Length: 126||v=0|o=mixer 1 1 IN IP4 127.0.0.1|s=-|c=IN IP4 127.0.0.1|t=0 0|m=audio 40000 RTP/AVP 8|a=rtpmap:8 PCMA/8000|a=sendrecv
at 2000 to 1|SIP/2.0 202 Accepted|Via: SIP/2.0/UDP 127.0.0.1:5071;branch=z9hG4bKr1|From: "Alice" <sip:alice@home.example>;tag=t2
|To: <sip:conf@home.example>;tag=0123456789abcdef-6|Call-ID: call2|CSeq: 8 REFER|Contact: <sip:room-1@127.0.0.1:5060>;isfocus|Content-Length: 0|
at 2000 to 1|NOTIFY sip:alice@127.0.0.1:5071 SIP/2.0|Via: SIP/2.0/UDP 127.0.0.1:5060;branch=z9hG4bK0123456789abcdef-7|Max-Forwards: 70
|From: <sip:conf@home.example>;tag=0123456789abcdef-6|To: "Alice" <sip:alice@home.example>;tag=t2|Call-ID: call2|CSeq: 1 NOTIFY
|Contact: <sip:room-1@127.0.0.1:5060>;isfocus|Event: refer|Subscription-State: active;expires=180|Content-Type: message/sipfrag;version=2.0|Content-Length: 20|
|SIP/2.0 100 Trying
at 2000 to 1|INVITE sip:bob1@127.0.0.1:5071 SIP/2.0|Via: SIP/2.0/UDP 127.0.0.1:5060;branch=z9hG4bK0123456789abcdef-8|Max-Forwards: 70
|From: "Alice" <sip:alice@home.example>;tag=0123456789abcdef-3|To: <sip:bob@home.example>;tag=b1|Call-ID: 0123456789abcdef-2|CSeq: 2 INVITE
|Contact: <sip:room-1@127.0.0.1:5060>;isfocus|Content-Type: application/sdp|Content-Length: 106||v=0|o=mixer 1 1 IN IP4 127.0.0.1|s=-|c=IN IP4 127.0.0.1|t=0 0
|m=audio 40000 RTP/AVP 0 8|a=sendrecv
at 2000 to 1|BYE sip:alice@127.0.0.1:5071 SIP/2.0|Via: SIP/2.0/UDP 127.0.0.1:5060;branch=z9hG4bK0123456789abcdef-9|Max-Forwards: 70
|From: <sip:bob@home.example>;tag=0123456789abcdef-1|To: "Alice" <sip:alice@home.example>;tag=t1|Call-ID: call1|CSeq: 1 BYE|Content-Length: 0|
at 2100 to 1|ACK sip:bob1@127.0.0.1:5071 SIP/2.0|Via: SIP/2.0/UDP 127.0.0.1:5060;branch=z9hG4bK0123456789abcdef-10|Max-Forwards: 70
|From: "Alice" <sip:alice@home.example>;tag=0123456789abcdef-3|To: <sip:bob@home.example>;tag=b1|Call-ID: 0123456789abcdef-2|CSeq: 2 ACK|Content-Length: 0|
at 2100 to 1|NOTIFY sip:alice@127.0.0.1:5071 SIP/2.0|Via: SIP/2.0/UDP 127.0.0.1:5060;branch=z9hG4bK0123456789abcdef-11|Max-Forwards: 70
|From: <sip:conf@home.example>;tag=0123456789abcdef-6|To: "Alice" <sip:alice@home.example>;tag=t2|Call-ID: call2|CSeq: 2 NOTIFY
|Contact: <sip:room-1@127.0.0.1:5060>;isfocus|Event: refer|Subscription-State: terminated;reason=noresource|Content-Type: message/sipfrag;version=2.0|Content-Length: 16|
|SIP/2.0 200 OK
at 3000 to 1|SIP/2.0 200 OK|Via: SIP/2.0/UDP 127.0.0.1:5071;branch=z9hG4bKbye1|From: <sip:bob@home.example>;tag=b1
|To: "Alice" <sip:alice@home.example>;tag=0123456789abcdef-3|Call-ID: 0123456789abcdef-2|CSeq: 1 BYE|Content-Length: 0|
at 3001 web|HTTP/1.1 200 OK|Content-Type: text/csv|Content-Length: 168|Connection: close|
x6b696e642c6163636f756e742c63616c6c2c626567616e2c616e7377657265642c656e6465642c686f6c64732c63617573652c7374617475730a6f726967696e2c312c312c302c3230302c323030302\
c302c656e6465642c300a7465726d696e6174696e672c322c312c302c3230302c323030302c302c656e6465642c300a7061727469636970616e742c322c312c323030302c323030302c333030302c302\
c656e6465642c300a
at 4000 to 1|SIP/2.0 200 OK|Via: SIP/2.0/UDP 127.0.0.1:5071;branch=z9hG4bKy2|From: "Alice" <sip:alice@home.example>;tag=t2
|To: <sip:conf@home.example>;tag=0123456789abcdef-6|Call-ID: call2|CSeq: 9 BYE|Content-Length: 0|
at 4001 web|HTTP/1.1 200 OK|Content-Type: text/csv|Content-Length: 209|Connection: close|
x6b696e642c6163636f756e742c63616c6c2c626567616e2c616e7377657265642c656e6465642c686f6c64732c63617573652c7374617475730a6f726967696e2c312c312c302c3230302c323030302\
c302c656e6465642c300a7465726d696e6174696e672c322c312c302c3230302c323030302c302c656e6465642c300a7061727469636970616e742c322c312c323030302c323030302c333030302c302\
c656e6465642c300a7061727469636970616e742c312c312c313030302c313030302c343030302c302c656e6465642c300a
~ Somebody comes to a room without audio.
at 0 peer 1|INVITE sip:room-7@127.0.0.1:5060 SIP/2.0|Via: SIP/2.0/UDP 127.0.0.1:5071;branch=z9hG4bKc1|Max-Forwards: 68|From: "Alice" <sip:alice@home.example>;tag=t1
|To: <sip:room-7@127.0.0.1:5060>|Call-ID: call1|CSeq: 7 INVITE|Contact: <sip:alice@127.0.0.1:5071>|P-Asserted-Identity: <sip:alice@home.example>|Content-Length: 0|
~ 488, before it is asked whether the room is live.
at 0 to 1|SIP/2.0 488 Not Acceptable Here|Via: SIP/2.0/UDP 127.0.0.1:5071;branch=z9hG4bKc1|From: "Alice" <sip:alice@home.example>;tag=t1
|To: <sip:room-7@127.0.0.1:5060>;tag=0123456789abcdef-1|Call-ID: call1|CSeq: 7 INVITE|Content-Length: 0|
~ Somebody asks for a room without audio.
at 0 peer 1|INVITE sip:conf@home.example SIP/2.0|Via: SIP/2.0/UDP 127.0.0.1:5071;branch=z9hG4bKf|Max-Forwards: 70|From: "Erin" <sip:erin@other.example>;tag=a
|To: <sip:conf@home.example>|Call-ID: c1|CSeq: 1 INVITE|Contact: <sip:x@127.0.0.1:5071>|P-Asserted-Identity: <sip:erin@other.example>|Content-Length: 0|
~ 488.
at 0 to 1|SIP/2.0 488 Not Acceptable Here|Via: SIP/2.0/UDP 127.0.0.1:5071;branch=z9hG4bKf|From: "Erin" <sip:erin@other.example>;tag=a
|To: <sip:conf@home.example>;tag=0123456789abcdef-1|Call-ID: c1|CSeq: 1 INVITE|Content-Length: 0|
~ Alice comes to a room that is not live.
at 0 peer 1|INVITE sip:room-7@127.0.0.1:5060 SIP/2.0|Via: SIP/2.0/UDP 127.0.0.1:5071;branch=z9hG4bKc1|Max-Forwards: 68|From: "Alice" <sip:alice@home.example>;tag=t1
|To: <sip:room-7@127.0.0.1:5060>|Call-ID: call1|CSeq: 7 INVITE|Contact: <sip:alice@127.0.0.1:5071>|P-Asserted-Identity: <sip:alice@home.example>
|Content-Type: application/sdp|Content-Length: 123||v=0|o=- 1 1 IN IP4 127.0.0.1|s=-|c=IN IP4 127.0.0.1|t=0 0|m=audio 5004 RTP/AVP 8 0|a=rtpmap:8 PCMA/8000|a=sendrecv
~ 404.
at 0 to 1|SIP/2.0 404 Not Found|Via: SIP/2.0/UDP 127.0.0.1:5071;branch=z9hG4bKc1|From: "Alice" <sip:alice@home.example>;tag=t1
|To: <sip:room-7@127.0.0.1:5060>;tag=0123456789abcdef-1|Call-ID: call1|CSeq: 7 INVITE|Content-Length: 0|
"#;

#[test]
fn rooms(rt: HostRuntime) {
    assert_right(&rt, "ROOMS", wrong_run(rt.alloc(), ROOMS));
}

/// A conference of which all 32 places are taken.
const FULL: &[u8] =
    br#"~ Alice talks with bob, opens a room, and so many come that all seats are taken and one more is turned away; she asks for bob's leg.
at 0 peer 1|INVITE sip:bob@home.example SIP/2.0|Via: SIP/2.0/UDP 127.0.0.1:5071;branch=z9hG4bKc1|Max-Forwards: 68|From: "Alice" <sip:alice@home.example>;tag=t1
|To: <sip:bob@home.example>|Call-ID: call1|CSeq: 7 INVITE|Contact: <sip:alice@127.0.0.1:5071>|P-Asserted-Identity: <sip:alice@home.example>|Content-Length: 0|
at 200 peer 1|SIP/2.0 200 OK|Via: SIP/2.0/UDP 127.0.0.1:5060;branch=z9hG4bK0123456789abcdef-4|From: "Alice" <sip:alice@home.example>;tag=0123456789abcdef-3
|To: <sip:bob@home.example>;tag=b1|Call-ID: 0123456789abcdef-2|CSeq: 1 INVITE|Contact: <sip:bob1@127.0.0.1:5071>|Content-Length: 0|
at 300 peer 1|ACK sip:127.0.0.1:5060 SIP/2.0|Via: SIP/2.0/UDP 127.0.0.1:5071;branch=z9hG4bKk1|Max-Forwards: 68|From: "Alice" <sip:alice@home.example>;tag=t1
|To: <sip:bob@home.example>;tag=0123456789abcdef-1|Call-ID: call1|CSeq: 7 ACK|Content-Length: 0|
at 1000 peer 1|INVITE sip:conf@home.example SIP/2.0|Via: SIP/2.0/UDP 127.0.0.1:5071;branch=z9hG4bKc2|Max-Forwards: 68|From: "Alice" <sip:alice@home.example>;tag=t2
|To: <sip:conf@home.example>|Call-ID: call2|CSeq: 7 INVITE|Contact: <sip:alice@127.0.0.1:5071>|P-Asserted-Identity: <sip:alice@home.example>|Content-Type: application/sdp
|Content-Length: 123||v=0|o=- 1 1 IN IP4 127.0.0.1|s=-|c=IN IP4 127.0.0.1|t=0 0|m=audio 5004 RTP/AVP 8 0|a=rtpmap:8 PCMA/8000|a=sendrecv
at 1000 peer 1|ACK sip:room-1@127.0.0.1:5060 SIP/2.0|Via: SIP/2.0/UDP 127.0.0.1:5071;branch=z9hG4bKk2|Max-Forwards: 68|From: "Alice" <sip:alice@home.example>;tag=t2
|To: <sip:conf@home.example>;tag=0123456789abcdef-6|Call-ID: call2|CSeq: 7 ACK|Content-Length: 0|
at 1000 peer 1|INVITE sip:room-1@127.0.0.1:5060 SIP/2.0|Via: SIP/2.0/UDP 127.0.0.1:5071;branch=z9hG4bKc100|Max-Forwards: 68
|From: "Alice" <sip:alice@home.example>;tag=t100|To: <sip:room-1@127.0.0.1:5060>|Call-ID: call100|CSeq: 7 INVITE|Contact: <sip:alice@127.0.0.1:5071>
|P-Asserted-Identity: <sip:alice@home.example>|Content-Type: application/sdp|Content-Length: 123||v=0|o=- 1 1 IN IP4 127.0.0.1|s=-|c=IN IP4 127.0.0.1|t=0 0
|m=audio 5004 RTP/AVP 8 0|a=rtpmap:8 PCMA/8000|a=sendrecv
at 1000 peer 1|ACK sip:room-1@127.0.0.1:5060 SIP/2.0|Via: SIP/2.0/UDP 127.0.0.1:5071;branch=z9hG4bKk100|Max-Forwards: 68|From: "Alice" <sip:alice@home.example>;tag=t100
|To: <sip:room-1@127.0.0.1:5060>;tag=0123456789abcdef-7|Call-ID: call100|CSeq: 7 ACK|Content-Length: 0|
at 1000 peer 1|INVITE sip:room-1@127.0.0.1:5060 SIP/2.0|Via: SIP/2.0/UDP 127.0.0.1:5071;branch=z9hG4bKc101|Max-Forwards: 68
|From: "Alice" <sip:alice@home.example>;tag=t101|To: <sip:room-1@127.0.0.1:5060>|Call-ID: call101|CSeq: 7 INVITE|Contact: <sip:alice@127.0.0.1:5071>
|P-Asserted-Identity: <sip:alice@home.example>|Content-Type: application/sdp|Content-Length: 123||v=0|o=- 1 1 IN IP4 127.0.0.1|s=-|c=IN IP4 127.0.0.1|t=0 0
|m=audio 5004 RTP/AVP 8 0|a=rtpmap:8 PCMA/8000|a=sendrecv
at 1000 peer 1|ACK sip:room-1@127.0.0.1:5060 SIP/2.0|Via: SIP/2.0/UDP 127.0.0.1:5071;branch=z9hG4bKk101|Max-Forwards: 68|From: "Alice" <sip:alice@home.example>;tag=t101
|To: <sip:room-1@127.0.0.1:5060>;tag=0123456789abcdef-8|Call-ID: call101|CSeq: 7 ACK|Content-Length: 0|
at 1000 peer 1|INVITE sip:room-1@127.0.0.1:5060 SIP/2.0|Via: SIP/2.0/UDP 127.0.0.1:5071;branch=z9hG4bKc102|Max-Forwards: 68
|From: "Alice" <sip:alice@home.example>;tag=t102|To: <sip:room-1@127.0.0.1:5060>|Call-ID: call102|CSeq: 7 INVITE|Contact: <sip:alice@127.0.0.1:5071>
|P-Asserted-Identity: <sip:alice@home.example>|Content-Type: application/sdp|Content-Length: 123||v=0|o=- 1 1 IN IP4 127.0.0.1|s=-|c=IN IP4 127.0.0.1|t=0 0
|m=audio 5004 RTP/AVP 8 0|a=rtpmap:8 PCMA/8000|a=sendrecv
at 1000 peer 1|ACK sip:room-1@127.0.0.1:5060 SIP/2.0|Via: SIP/2.0/UDP 127.0.0.1:5071;branch=z9hG4bKk102|Max-Forwards: 68|From: "Alice" <sip:alice@home.example>;tag=t102
|To: <sip:room-1@127.0.0.1:5060>;tag=0123456789abcdef-9|Call-ID: call102|CSeq: 7 ACK|Content-Length: 0|
at 1000 peer 1|INVITE sip:room-1@127.0.0.1:5060 SIP/2.0|Via: SIP/2.0/UDP 127.0.0.1:5071;branch=z9hG4bKc103|Max-Forwards: 68
|From: "Alice" <sip:alice@home.example>;tag=t103|To: <sip:room-1@127.0.0.1:5060>|Call-ID: call103|CSeq: 7 INVITE|Contact: <sip:alice@127.0.0.1:5071>
|P-Asserted-Identity: <sip:alice@home.example>|Content-Type: application/sdp|Content-Length: 123||v=0|o=- 1 1 IN IP4 127.0.0.1|s=-|c=IN IP4 127.0.0.1|t=0 0
|m=audio 5004 RTP/AVP 8 0|a=rtpmap:8 PCMA/8000|a=sendrecv
at 1000 peer 1|ACK sip:room-1@127.0.0.1:5060 SIP/2.0|Via: SIP/2.0/UDP 127.0.0.1:5071;branch=z9hG4bKk103|Max-Forwards: 68|From: "Alice" <sip:alice@home.example>;tag=t103
|To: <sip:room-1@127.0.0.1:5060>;tag=0123456789abcdef-10|Call-ID: call103|CSeq: 7 ACK|Content-Length: 0|
at 1000 peer 1|INVITE sip:room-1@127.0.0.1:5060 SIP/2.0|Via: SIP/2.0/UDP 127.0.0.1:5071;branch=z9hG4bKc104|Max-Forwards: 68
|From: "Alice" <sip:alice@home.example>;tag=t104|To: <sip:room-1@127.0.0.1:5060>|Call-ID: call104|CSeq: 7 INVITE|Contact: <sip:alice@127.0.0.1:5071>
|P-Asserted-Identity: <sip:alice@home.example>|Content-Type: application/sdp|Content-Length: 123||v=0|o=- 1 1 IN IP4 127.0.0.1|s=-|c=IN IP4 127.0.0.1|t=0 0
|m=audio 5004 RTP/AVP 8 0|a=rtpmap:8 PCMA/8000|a=sendrecv
at 1000 peer 1|ACK sip:room-1@127.0.0.1:5060 SIP/2.0|Via: SIP/2.0/UDP 127.0.0.1:5071;branch=z9hG4bKk104|Max-Forwards: 68|From: "Alice" <sip:alice@home.example>;tag=t104
|To: <sip:room-1@127.0.0.1:5060>;tag=0123456789abcdef-11|Call-ID: call104|CSeq: 7 ACK|Content-Length: 0|
at 1000 peer 1|INVITE sip:room-1@127.0.0.1:5060 SIP/2.0|Via: SIP/2.0/UDP 127.0.0.1:5071;branch=z9hG4bKc105|Max-Forwards: 68
|From: "Alice" <sip:alice@home.example>;tag=t105|To: <sip:room-1@127.0.0.1:5060>|Call-ID: call105|CSeq: 7 INVITE|Contact: <sip:alice@127.0.0.1:5071>
|P-Asserted-Identity: <sip:alice@home.example>|Content-Type: application/sdp|Content-Length: 123||v=0|o=- 1 1 IN IP4 127.0.0.1|s=-|c=IN IP4 127.0.0.1|t=0 0
|m=audio 5004 RTP/AVP 8 0|a=rtpmap:8 PCMA/8000|a=sendrecv
at 1000 peer 1|ACK sip:room-1@127.0.0.1:5060 SIP/2.0|Via: SIP/2.0/UDP 127.0.0.1:5071;branch=z9hG4bKk105|Max-Forwards: 68|From: "Alice" <sip:alice@home.example>;tag=t105
|To: <sip:room-1@127.0.0.1:5060>;tag=0123456789abcdef-12|Call-ID: call105|CSeq: 7 ACK|Content-Length: 0|
at 1000 peer 1|INVITE sip:room-1@127.0.0.1:5060 SIP/2.0|Via: SIP/2.0/UDP 127.0.0.1:5071;branch=z9hG4bKc106|Max-Forwards: 68
|From: "Alice" <sip:alice@home.example>;tag=t106|To: <sip:room-1@127.0.0.1:5060>|Call-ID: call106|CSeq: 7 INVITE|Contact: <sip:alice@127.0.0.1:5071>
|P-Asserted-Identity: <sip:alice@home.example>|Content-Type: application/sdp|Content-Length: 123||v=0|o=- 1 1 IN IP4 127.0.0.1|s=-|c=IN IP4 127.0.0.1|t=0 0
|m=audio 5004 RTP/AVP 8 0|a=rtpmap:8 PCMA/8000|a=sendrecv
at 1000 peer 1|ACK sip:room-1@127.0.0.1:5060 SIP/2.0|Via: SIP/2.0/UDP 127.0.0.1:5071;branch=z9hG4bKk106|Max-Forwards: 68|From: "Alice" <sip:alice@home.example>;tag=t106
|To: <sip:room-1@127.0.0.1:5060>;tag=0123456789abcdef-13|Call-ID: call106|CSeq: 7 ACK|Content-Length: 0|
at 1000 peer 1|INVITE sip:room-1@127.0.0.1:5060 SIP/2.0|Via: SIP/2.0/UDP 127.0.0.1:5071;branch=z9hG4bKc107|Max-Forwards: 68
|From: "Alice" <sip:alice@home.example>;tag=t107|To: <sip:room-1@127.0.0.1:5060>|Call-ID: call107|CSeq: 7 INVITE|Contact: <sip:alice@127.0.0.1:5071>
|P-Asserted-Identity: <sip:alice@home.example>|Content-Type: application/sdp|Content-Length: 123||v=0|o=- 1 1 IN IP4 127.0.0.1|s=-|c=IN IP4 127.0.0.1|t=0 0
|m=audio 5004 RTP/AVP 8 0|a=rtpmap:8 PCMA/8000|a=sendrecv
at 1000 peer 1|ACK sip:room-1@127.0.0.1:5060 SIP/2.0|Via: SIP/2.0/UDP 127.0.0.1:5071;branch=z9hG4bKk107|Max-Forwards: 68|From: "Alice" <sip:alice@home.example>;tag=t107
|To: <sip:room-1@127.0.0.1:5060>;tag=0123456789abcdef-14|Call-ID: call107|CSeq: 7 ACK|Content-Length: 0|
at 1000 peer 1|INVITE sip:room-1@127.0.0.1:5060 SIP/2.0|Via: SIP/2.0/UDP 127.0.0.1:5071;branch=z9hG4bKc108|Max-Forwards: 68
|From: "Alice" <sip:alice@home.example>;tag=t108|To: <sip:room-1@127.0.0.1:5060>|Call-ID: call108|CSeq: 7 INVITE|Contact: <sip:alice@127.0.0.1:5071>
|P-Asserted-Identity: <sip:alice@home.example>|Content-Type: application/sdp|Content-Length: 123||v=0|o=- 1 1 IN IP4 127.0.0.1|s=-|c=IN IP4 127.0.0.1|t=0 0
|m=audio 5004 RTP/AVP 8 0|a=rtpmap:8 PCMA/8000|a=sendrecv
at 1000 peer 1|ACK sip:room-1@127.0.0.1:5060 SIP/2.0|Via: SIP/2.0/UDP 127.0.0.1:5071;branch=z9hG4bKk108|Max-Forwards: 68|From: "Alice" <sip:alice@home.example>;tag=t108
|To: <sip:room-1@127.0.0.1:5060>;tag=0123456789abcdef-15|Call-ID: call108|CSeq: 7 ACK|Content-Length: 0|
at 1000 peer 1|INVITE sip:room-1@127.0.0.1:5060 SIP/2.0|Via: SIP/2.0/UDP 127.0.0.1:5071;branch=z9hG4bKc109|Max-Forwards: 68
|From: "Alice" <sip:alice@home.example>;tag=t109|To: <sip:room-1@127.0.0.1:5060>|Call-ID: call109|CSeq: 7 INVITE|Contact: <sip:alice@127.0.0.1:5071>
|P-Asserted-Identity: <sip:alice@home.example>|Content-Type: application/sdp|Content-Length: 123||v=0|o=- 1 1 IN IP4 127.0.0.1|s=-|c=IN IP4 127.0.0.1|t=0 0
|m=audio 5004 RTP/AVP 8 0|a=rtpmap:8 PCMA/8000|a=sendrecv
at 1000 peer 1|ACK sip:room-1@127.0.0.1:5060 SIP/2.0|Via: SIP/2.0/UDP 127.0.0.1:5071;branch=z9hG4bKk109|Max-Forwards: 68|From: "Alice" <sip:alice@home.example>;tag=t109
|To: <sip:room-1@127.0.0.1:5060>;tag=0123456789abcdef-16|Call-ID: call109|CSeq: 7 ACK|Content-Length: 0|
at 1000 peer 1|INVITE sip:room-1@127.0.0.1:5060 SIP/2.0|Via: SIP/2.0/UDP 127.0.0.1:5071;branch=z9hG4bKc110|Max-Forwards: 68
|From: "Alice" <sip:alice@home.example>;tag=t110|To: <sip:room-1@127.0.0.1:5060>|Call-ID: call110|CSeq: 7 INVITE|Contact: <sip:alice@127.0.0.1:5071>
|P-Asserted-Identity: <sip:alice@home.example>|Content-Type: application/sdp|Content-Length: 123||v=0|o=- 1 1 IN IP4 127.0.0.1|s=-|c=IN IP4 127.0.0.1|t=0 0
|m=audio 5004 RTP/AVP 8 0|a=rtpmap:8 PCMA/8000|a=sendrecv
at 1000 peer 1|ACK sip:room-1@127.0.0.1:5060 SIP/2.0|Via: SIP/2.0/UDP 127.0.0.1:5071;branch=z9hG4bKk110|Max-Forwards: 68|From: "Alice" <sip:alice@home.example>;tag=t110
|To: <sip:room-1@127.0.0.1:5060>;tag=0123456789abcdef-17|Call-ID: call110|CSeq: 7 ACK|Content-Length: 0|
at 1000 peer 1|INVITE sip:room-1@127.0.0.1:5060 SIP/2.0|Via: SIP/2.0/UDP 127.0.0.1:5071;branch=z9hG4bKc111|Max-Forwards: 68
|From: "Alice" <sip:alice@home.example>;tag=t111|To: <sip:room-1@127.0.0.1:5060>|Call-ID: call111|CSeq: 7 INVITE|Contact: <sip:alice@127.0.0.1:5071>
|P-Asserted-Identity: <sip:alice@home.example>|Content-Type: application/sdp|Content-Length: 123||v=0|o=- 1 1 IN IP4 127.0.0.1|s=-|c=IN IP4 127.0.0.1|t=0 0
|m=audio 5004 RTP/AVP 8 0|a=rtpmap:8 PCMA/8000|a=sendrecv
at 1000 peer 1|ACK sip:room-1@127.0.0.1:5060 SIP/2.0|Via: SIP/2.0/UDP 127.0.0.1:5071;branch=z9hG4bKk111|Max-Forwards: 68|From: "Alice" <sip:alice@home.example>;tag=t111
|To: <sip:room-1@127.0.0.1:5060>;tag=0123456789abcdef-18|Call-ID: call111|CSeq: 7 ACK|Content-Length: 0|
at 1000 peer 1|INVITE sip:room-1@127.0.0.1:5060 SIP/2.0|Via: SIP/2.0/UDP 127.0.0.1:5071;branch=z9hG4bKc112|Max-Forwards: 68
|From: "Alice" <sip:alice@home.example>;tag=t112|To: <sip:room-1@127.0.0.1:5060>|Call-ID: call112|CSeq: 7 INVITE|Contact: <sip:alice@127.0.0.1:5071>
|P-Asserted-Identity: <sip:alice@home.example>|Content-Type: application/sdp|Content-Length: 123||v=0|o=- 1 1 IN IP4 127.0.0.1|s=-|c=IN IP4 127.0.0.1|t=0 0
|m=audio 5004 RTP/AVP 8 0|a=rtpmap:8 PCMA/8000|a=sendrecv
at 1000 peer 1|ACK sip:room-1@127.0.0.1:5060 SIP/2.0|Via: SIP/2.0/UDP 127.0.0.1:5071;branch=z9hG4bKk112|Max-Forwards: 68|From: "Alice" <sip:alice@home.example>;tag=t112
|To: <sip:room-1@127.0.0.1:5060>;tag=0123456789abcdef-19|Call-ID: call112|CSeq: 7 ACK|Content-Length: 0|
at 1000 peer 1|INVITE sip:room-1@127.0.0.1:5060 SIP/2.0|Via: SIP/2.0/UDP 127.0.0.1:5071;branch=z9hG4bKc113|Max-Forwards: 68
|From: "Alice" <sip:alice@home.example>;tag=t113|To: <sip:room-1@127.0.0.1:5060>|Call-ID: call113|CSeq: 7 INVITE|Contact: <sip:alice@127.0.0.1:5071>
|P-Asserted-Identity: <sip:alice@home.example>|Content-Type: application/sdp|Content-Length: 123||v=0|o=- 1 1 IN IP4 127.0.0.1|s=-|c=IN IP4 127.0.0.1|t=0 0
|m=audio 5004 RTP/AVP 8 0|a=rtpmap:8 PCMA/8000|a=sendrecv
at 1000 peer 1|ACK sip:room-1@127.0.0.1:5060 SIP/2.0|Via: SIP/2.0/UDP 127.0.0.1:5071;branch=z9hG4bKk113|Max-Forwards: 68|From: "Alice" <sip:alice@home.example>;tag=t113
|To: <sip:room-1@127.0.0.1:5060>;tag=0123456789abcdef-20|Call-ID: call113|CSeq: 7 ACK|Content-Length: 0|
at 1000 peer 1|INVITE sip:room-1@127.0.0.1:5060 SIP/2.0|Via: SIP/2.0/UDP 127.0.0.1:5071;branch=z9hG4bKc114|Max-Forwards: 68
|From: "Alice" <sip:alice@home.example>;tag=t114|To: <sip:room-1@127.0.0.1:5060>|Call-ID: call114|CSeq: 7 INVITE|Contact: <sip:alice@127.0.0.1:5071>
|P-Asserted-Identity: <sip:alice@home.example>|Content-Type: application/sdp|Content-Length: 123||v=0|o=- 1 1 IN IP4 127.0.0.1|s=-|c=IN IP4 127.0.0.1|t=0 0
|m=audio 5004 RTP/AVP 8 0|a=rtpmap:8 PCMA/8000|a=sendrecv
at 1000 peer 1|ACK sip:room-1@127.0.0.1:5060 SIP/2.0|Via: SIP/2.0/UDP 127.0.0.1:5071;branch=z9hG4bKk114|Max-Forwards: 68|From: "Alice" <sip:alice@home.example>;tag=t114
|To: <sip:room-1@127.0.0.1:5060>;tag=0123456789abcdef-21|Call-ID: call114|CSeq: 7 ACK|Content-Length: 0|
at 1000 peer 1|INVITE sip:room-1@127.0.0.1:5060 SIP/2.0|Via: SIP/2.0/UDP 127.0.0.1:5071;branch=z9hG4bKc115|Max-Forwards: 68
|From: "Alice" <sip:alice@home.example>;tag=t115|To: <sip:room-1@127.0.0.1:5060>|Call-ID: call115|CSeq: 7 INVITE|Contact: <sip:alice@127.0.0.1:5071>
|P-Asserted-Identity: <sip:alice@home.example>|Content-Type: application/sdp|Content-Length: 123||v=0|o=- 1 1 IN IP4 127.0.0.1|s=-|c=IN IP4 127.0.0.1|t=0 0
|m=audio 5004 RTP/AVP 8 0|a=rtpmap:8 PCMA/8000|a=sendrecv
at 1000 peer 1|ACK sip:room-1@127.0.0.1:5060 SIP/2.0|Via: SIP/2.0/UDP 127.0.0.1:5071;branch=z9hG4bKk115|Max-Forwards: 68|From: "Alice" <sip:alice@home.example>;tag=t115
|To: <sip:room-1@127.0.0.1:5060>;tag=0123456789abcdef-22|Call-ID: call115|CSeq: 7 ACK|Content-Length: 0|
at 1000 peer 1|INVITE sip:room-1@127.0.0.1:5060 SIP/2.0|Via: SIP/2.0/UDP 127.0.0.1:5071;branch=z9hG4bKc116|Max-Forwards: 68
|From: "Alice" <sip:alice@home.example>;tag=t116|To: <sip:room-1@127.0.0.1:5060>|Call-ID: call116|CSeq: 7 INVITE|Contact: <sip:alice@127.0.0.1:5071>
|P-Asserted-Identity: <sip:alice@home.example>|Content-Type: application/sdp|Content-Length: 123||v=0|o=- 1 1 IN IP4 127.0.0.1|s=-|c=IN IP4 127.0.0.1|t=0 0
|m=audio 5004 RTP/AVP 8 0|a=rtpmap:8 PCMA/8000|a=sendrecv
at 1000 peer 1|ACK sip:room-1@127.0.0.1:5060 SIP/2.0|Via: SIP/2.0/UDP 127.0.0.1:5071;branch=z9hG4bKk116|Max-Forwards: 68|From: "Alice" <sip:alice@home.example>;tag=t116
|To: <sip:room-1@127.0.0.1:5060>;tag=0123456789abcdef-23|Call-ID: call116|CSeq: 7 ACK|Content-Length: 0|
at 1000 peer 1|INVITE sip:room-1@127.0.0.1:5060 SIP/2.0|Via: SIP/2.0/UDP 127.0.0.1:5071;branch=z9hG4bKc117|Max-Forwards: 68
|From: "Alice" <sip:alice@home.example>;tag=t117|To: <sip:room-1@127.0.0.1:5060>|Call-ID: call117|CSeq: 7 INVITE|Contact: <sip:alice@127.0.0.1:5071>
|P-Asserted-Identity: <sip:alice@home.example>|Content-Type: application/sdp|Content-Length: 123||v=0|o=- 1 1 IN IP4 127.0.0.1|s=-|c=IN IP4 127.0.0.1|t=0 0
|m=audio 5004 RTP/AVP 8 0|a=rtpmap:8 PCMA/8000|a=sendrecv
at 1000 peer 1|ACK sip:room-1@127.0.0.1:5060 SIP/2.0|Via: SIP/2.0/UDP 127.0.0.1:5071;branch=z9hG4bKk117|Max-Forwards: 68|From: "Alice" <sip:alice@home.example>;tag=t117
|To: <sip:room-1@127.0.0.1:5060>;tag=0123456789abcdef-24|Call-ID: call117|CSeq: 7 ACK|Content-Length: 0|
at 1000 peer 1|INVITE sip:room-1@127.0.0.1:5060 SIP/2.0|Via: SIP/2.0/UDP 127.0.0.1:5071;branch=z9hG4bKc118|Max-Forwards: 68
|From: "Alice" <sip:alice@home.example>;tag=t118|To: <sip:room-1@127.0.0.1:5060>|Call-ID: call118|CSeq: 7 INVITE|Contact: <sip:alice@127.0.0.1:5071>
|P-Asserted-Identity: <sip:alice@home.example>|Content-Type: application/sdp|Content-Length: 123||v=0|o=- 1 1 IN IP4 127.0.0.1|s=-|c=IN IP4 127.0.0.1|t=0 0
|m=audio 5004 RTP/AVP 8 0|a=rtpmap:8 PCMA/8000|a=sendrecv
at 1000 peer 1|ACK sip:room-1@127.0.0.1:5060 SIP/2.0|Via: SIP/2.0/UDP 127.0.0.1:5071;branch=z9hG4bKk118|Max-Forwards: 68|From: "Alice" <sip:alice@home.example>;tag=t118
|To: <sip:room-1@127.0.0.1:5060>;tag=0123456789abcdef-25|Call-ID: call118|CSeq: 7 ACK|Content-Length: 0|
at 1000 peer 1|INVITE sip:room-1@127.0.0.1:5060 SIP/2.0|Via: SIP/2.0/UDP 127.0.0.1:5071;branch=z9hG4bKc119|Max-Forwards: 68
|From: "Alice" <sip:alice@home.example>;tag=t119|To: <sip:room-1@127.0.0.1:5060>|Call-ID: call119|CSeq: 7 INVITE|Contact: <sip:alice@127.0.0.1:5071>
|P-Asserted-Identity: <sip:alice@home.example>|Content-Type: application/sdp|Content-Length: 123||v=0|o=- 1 1 IN IP4 127.0.0.1|s=-|c=IN IP4 127.0.0.1|t=0 0
|m=audio 5004 RTP/AVP 8 0|a=rtpmap:8 PCMA/8000|a=sendrecv
at 1000 peer 1|ACK sip:room-1@127.0.0.1:5060 SIP/2.0|Via: SIP/2.0/UDP 127.0.0.1:5071;branch=z9hG4bKk119|Max-Forwards: 68|From: "Alice" <sip:alice@home.example>;tag=t119
|To: <sip:room-1@127.0.0.1:5060>;tag=0123456789abcdef-26|Call-ID: call119|CSeq: 7 ACK|Content-Length: 0|
at 1000 peer 1|INVITE sip:room-1@127.0.0.1:5060 SIP/2.0|Via: SIP/2.0/UDP 127.0.0.1:5071;branch=z9hG4bKc120|Max-Forwards: 68
|From: "Alice" <sip:alice@home.example>;tag=t120|To: <sip:room-1@127.0.0.1:5060>|Call-ID: call120|CSeq: 7 INVITE|Contact: <sip:alice@127.0.0.1:5071>
|P-Asserted-Identity: <sip:alice@home.example>|Content-Type: application/sdp|Content-Length: 123||v=0|o=- 1 1 IN IP4 127.0.0.1|s=-|c=IN IP4 127.0.0.1|t=0 0
|m=audio 5004 RTP/AVP 8 0|a=rtpmap:8 PCMA/8000|a=sendrecv
at 1000 peer 1|ACK sip:room-1@127.0.0.1:5060 SIP/2.0|Via: SIP/2.0/UDP 127.0.0.1:5071;branch=z9hG4bKk120|Max-Forwards: 68|From: "Alice" <sip:alice@home.example>;tag=t120
|To: <sip:room-1@127.0.0.1:5060>;tag=0123456789abcdef-27|Call-ID: call120|CSeq: 7 ACK|Content-Length: 0|
at 1000 peer 1|INVITE sip:room-1@127.0.0.1:5060 SIP/2.0|Via: SIP/2.0/UDP 127.0.0.1:5071;branch=z9hG4bKc121|Max-Forwards: 68
|From: "Alice" <sip:alice@home.example>;tag=t121|To: <sip:room-1@127.0.0.1:5060>|Call-ID: call121|CSeq: 7 INVITE|Contact: <sip:alice@127.0.0.1:5071>
|P-Asserted-Identity: <sip:alice@home.example>|Content-Type: application/sdp|Content-Length: 123||v=0|o=- 1 1 IN IP4 127.0.0.1|s=-|c=IN IP4 127.0.0.1|t=0 0
|m=audio 5004 RTP/AVP 8 0|a=rtpmap:8 PCMA/8000|a=sendrecv
at 1000 peer 1|ACK sip:room-1@127.0.0.1:5060 SIP/2.0|Via: SIP/2.0/UDP 127.0.0.1:5071;branch=z9hG4bKk121|Max-Forwards: 68|From: "Alice" <sip:alice@home.example>;tag=t121
|To: <sip:room-1@127.0.0.1:5060>;tag=0123456789abcdef-28|Call-ID: call121|CSeq: 7 ACK|Content-Length: 0|
at 1000 peer 1|INVITE sip:room-1@127.0.0.1:5060 SIP/2.0|Via: SIP/2.0/UDP 127.0.0.1:5071;branch=z9hG4bKc122|Max-Forwards: 68
|From: "Alice" <sip:alice@home.example>;tag=t122|To: <sip:room-1@127.0.0.1:5060>|Call-ID: call122|CSeq: 7 INVITE|Contact: <sip:alice@127.0.0.1:5071>
|P-Asserted-Identity: <sip:alice@home.example>|Content-Type: application/sdp|Content-Length: 123||v=0|o=- 1 1 IN IP4 127.0.0.1|s=-|c=IN IP4 127.0.0.1|t=0 0
|m=audio 5004 RTP/AVP 8 0|a=rtpmap:8 PCMA/8000|a=sendrecv
at 1000 peer 1|ACK sip:room-1@127.0.0.1:5060 SIP/2.0|Via: SIP/2.0/UDP 127.0.0.1:5071;branch=z9hG4bKk122|Max-Forwards: 68|From: "Alice" <sip:alice@home.example>;tag=t122
|To: <sip:room-1@127.0.0.1:5060>;tag=0123456789abcdef-29|Call-ID: call122|CSeq: 7 ACK|Content-Length: 0|
at 1000 peer 1|INVITE sip:room-1@127.0.0.1:5060 SIP/2.0|Via: SIP/2.0/UDP 127.0.0.1:5071;branch=z9hG4bKc123|Max-Forwards: 68
|From: "Alice" <sip:alice@home.example>;tag=t123|To: <sip:room-1@127.0.0.1:5060>|Call-ID: call123|CSeq: 7 INVITE|Contact: <sip:alice@127.0.0.1:5071>
|P-Asserted-Identity: <sip:alice@home.example>|Content-Type: application/sdp|Content-Length: 123||v=0|o=- 1 1 IN IP4 127.0.0.1|s=-|c=IN IP4 127.0.0.1|t=0 0
|m=audio 5004 RTP/AVP 8 0|a=rtpmap:8 PCMA/8000|a=sendrecv
at 1000 peer 1|ACK sip:room-1@127.0.0.1:5060 SIP/2.0|Via: SIP/2.0/UDP 127.0.0.1:5071;branch=z9hG4bKk123|Max-Forwards: 68|From: "Alice" <sip:alice@home.example>;tag=t123
|To: <sip:room-1@127.0.0.1:5060>;tag=0123456789abcdef-30|Call-ID: call123|CSeq: 7 ACK|Content-Length: 0|
at 1000 peer 1|INVITE sip:room-1@127.0.0.1:5060 SIP/2.0|Via: SIP/2.0/UDP 127.0.0.1:5071;branch=z9hG4bKc124|Max-Forwards: 68
|From: "Alice" <sip:alice@home.example>;tag=t124|To: <sip:room-1@127.0.0.1:5060>|Call-ID: call124|CSeq: 7 INVITE|Contact: <sip:alice@127.0.0.1:5071>
|P-Asserted-Identity: <sip:alice@home.example>|Content-Type: application/sdp|Content-Length: 123||v=0|o=- 1 1 IN IP4 127.0.0.1|s=-|c=IN IP4 127.0.0.1|t=0 0
|m=audio 5004 RTP/AVP 8 0|a=rtpmap:8 PCMA/8000|a=sendrecv
at 1000 peer 1|ACK sip:room-1@127.0.0.1:5060 SIP/2.0|Via: SIP/2.0/UDP 127.0.0.1:5071;branch=z9hG4bKk124|Max-Forwards: 68|From: "Alice" <sip:alice@home.example>;tag=t124
|To: <sip:room-1@127.0.0.1:5060>;tag=0123456789abcdef-31|Call-ID: call124|CSeq: 7 ACK|Content-Length: 0|
at 1000 peer 1|INVITE sip:room-1@127.0.0.1:5060 SIP/2.0|Via: SIP/2.0/UDP 127.0.0.1:5071;branch=z9hG4bKc125|Max-Forwards: 68
|From: "Alice" <sip:alice@home.example>;tag=t125|To: <sip:room-1@127.0.0.1:5060>|Call-ID: call125|CSeq: 7 INVITE|Contact: <sip:alice@127.0.0.1:5071>
|P-Asserted-Identity: <sip:alice@home.example>|Content-Type: application/sdp|Content-Length: 123||v=0|o=- 1 1 IN IP4 127.0.0.1|s=-|c=IN IP4 127.0.0.1|t=0 0
|m=audio 5004 RTP/AVP 8 0|a=rtpmap:8 PCMA/8000|a=sendrecv
at 1000 peer 1|ACK sip:room-1@127.0.0.1:5060 SIP/2.0|Via: SIP/2.0/UDP 127.0.0.1:5071;branch=z9hG4bKk125|Max-Forwards: 68|From: "Alice" <sip:alice@home.example>;tag=t125
|To: <sip:room-1@127.0.0.1:5060>;tag=0123456789abcdef-32|Call-ID: call125|CSeq: 7 ACK|Content-Length: 0|
at 1000 peer 1|INVITE sip:room-1@127.0.0.1:5060 SIP/2.0|Via: SIP/2.0/UDP 127.0.0.1:5071;branch=z9hG4bKc126|Max-Forwards: 68
|From: "Alice" <sip:alice@home.example>;tag=t126|To: <sip:room-1@127.0.0.1:5060>|Call-ID: call126|CSeq: 7 INVITE|Contact: <sip:alice@127.0.0.1:5071>
|P-Asserted-Identity: <sip:alice@home.example>|Content-Type: application/sdp|Content-Length: 123||v=0|o=- 1 1 IN IP4 127.0.0.1|s=-|c=IN IP4 127.0.0.1|t=0 0
|m=audio 5004 RTP/AVP 8 0|a=rtpmap:8 PCMA/8000|a=sendrecv
at 1000 peer 1|ACK sip:room-1@127.0.0.1:5060 SIP/2.0|Via: SIP/2.0/UDP 127.0.0.1:5071;branch=z9hG4bKk126|Max-Forwards: 68|From: "Alice" <sip:alice@home.example>;tag=t126
|To: <sip:room-1@127.0.0.1:5060>;tag=0123456789abcdef-33|Call-ID: call126|CSeq: 7 ACK|Content-Length: 0|
at 1000 peer 1|INVITE sip:room-1@127.0.0.1:5060 SIP/2.0|Via: SIP/2.0/UDP 127.0.0.1:5071;branch=z9hG4bKc127|Max-Forwards: 68
|From: "Alice" <sip:alice@home.example>;tag=t127|To: <sip:room-1@127.0.0.1:5060>|Call-ID: call127|CSeq: 7 INVITE|Contact: <sip:alice@127.0.0.1:5071>
|P-Asserted-Identity: <sip:alice@home.example>|Content-Type: application/sdp|Content-Length: 123||v=0|o=- 1 1 IN IP4 127.0.0.1|s=-|c=IN IP4 127.0.0.1|t=0 0
|m=audio 5004 RTP/AVP 8 0|a=rtpmap:8 PCMA/8000|a=sendrecv
at 1000 peer 1|ACK sip:room-1@127.0.0.1:5060 SIP/2.0|Via: SIP/2.0/UDP 127.0.0.1:5071;branch=z9hG4bKk127|Max-Forwards: 68|From: "Alice" <sip:alice@home.example>;tag=t127
|To: <sip:room-1@127.0.0.1:5060>;tag=0123456789abcdef-34|Call-ID: call127|CSeq: 7 ACK|Content-Length: 0|
at 1000 peer 1|INVITE sip:room-1@127.0.0.1:5060 SIP/2.0|Via: SIP/2.0/UDP 127.0.0.1:5071;branch=z9hG4bKc128|Max-Forwards: 68
|From: "Alice" <sip:alice@home.example>;tag=t128|To: <sip:room-1@127.0.0.1:5060>|Call-ID: call128|CSeq: 7 INVITE|Contact: <sip:alice@127.0.0.1:5071>
|P-Asserted-Identity: <sip:alice@home.example>|Content-Type: application/sdp|Content-Length: 123||v=0|o=- 1 1 IN IP4 127.0.0.1|s=-|c=IN IP4 127.0.0.1|t=0 0
|m=audio 5004 RTP/AVP 8 0|a=rtpmap:8 PCMA/8000|a=sendrecv
at 1000 peer 1|ACK sip:room-1@127.0.0.1:5060 SIP/2.0|Via: SIP/2.0/UDP 127.0.0.1:5071;branch=z9hG4bKk128|Max-Forwards: 68|From: "Alice" <sip:alice@home.example>;tag=t128
|To: <sip:room-1@127.0.0.1:5060>;tag=0123456789abcdef-35|Call-ID: call128|CSeq: 7 ACK|Content-Length: 0|
at 1000 peer 1|INVITE sip:room-1@127.0.0.1:5060 SIP/2.0|Via: SIP/2.0/UDP 127.0.0.1:5071;branch=z9hG4bKc129|Max-Forwards: 68
|From: "Alice" <sip:alice@home.example>;tag=t129|To: <sip:room-1@127.0.0.1:5060>|Call-ID: call129|CSeq: 7 INVITE|Contact: <sip:alice@127.0.0.1:5071>
|P-Asserted-Identity: <sip:alice@home.example>|Content-Type: application/sdp|Content-Length: 123||v=0|o=- 1 1 IN IP4 127.0.0.1|s=-|c=IN IP4 127.0.0.1|t=0 0
|m=audio 5004 RTP/AVP 8 0|a=rtpmap:8 PCMA/8000|a=sendrecv
at 1000 peer 1|ACK sip:room-1@127.0.0.1:5060 SIP/2.0|Via: SIP/2.0/UDP 127.0.0.1:5071;branch=z9hG4bKk129|Max-Forwards: 68|From: "Alice" <sip:alice@home.example>;tag=t129
|To: <sip:room-1@127.0.0.1:5060>;tag=0123456789abcdef-36|Call-ID: call129|CSeq: 7 ACK|Content-Length: 0|
at 1000 peer 1|INVITE sip:room-1@127.0.0.1:5060 SIP/2.0|Via: SIP/2.0/UDP 127.0.0.1:5071;branch=z9hG4bKc130|Max-Forwards: 68
|From: "Alice" <sip:alice@home.example>;tag=t130|To: <sip:room-1@127.0.0.1:5060>|Call-ID: call130|CSeq: 7 INVITE|Contact: <sip:alice@127.0.0.1:5071>
|P-Asserted-Identity: <sip:alice@home.example>|Content-Type: application/sdp|Content-Length: 123||v=0|o=- 1 1 IN IP4 127.0.0.1|s=-|c=IN IP4 127.0.0.1|t=0 0
|m=audio 5004 RTP/AVP 8 0|a=rtpmap:8 PCMA/8000|a=sendrecv
at 1000 peer 1|ACK sip:room-1@127.0.0.1:5060 SIP/2.0|Via: SIP/2.0/UDP 127.0.0.1:5071;branch=z9hG4bKk130|Max-Forwards: 68|From: "Alice" <sip:alice@home.example>;tag=t130
|To: <sip:room-1@127.0.0.1:5060>;tag=0123456789abcdef-37|Call-ID: call130|CSeq: 7 ACK|Content-Length: 0|
at 1000 peer 1|INVITE sip:room-1@127.0.0.1:5060 SIP/2.0|Via: SIP/2.0/UDP 127.0.0.1:5071;branch=z9hG4bKc200|Max-Forwards: 68
|From: "Alice" <sip:alice@home.example>;tag=t200|To: <sip:room-1@127.0.0.1:5060>|Call-ID: call200|CSeq: 7 INVITE|Contact: <sip:alice@127.0.0.1:5071>
|P-Asserted-Identity: <sip:alice@home.example>|Content-Type: application/sdp|Content-Length: 123||v=0|o=- 1 1 IN IP4 127.0.0.1|s=-|c=IN IP4 127.0.0.1|t=0 0
|m=audio 5004 RTP/AVP 8 0|a=rtpmap:8 PCMA/8000|a=sendrecv
at 1000 peer 1|ACK sip:room-1@127.0.0.1:5060 SIP/2.0|Via: SIP/2.0/UDP 127.0.0.1:5071;branch=z9hG4bKc200|Max-Forwards: 68|From: "Alice" <sip:alice@home.example>;tag=t200
|To: <sip:room-1@127.0.0.1:5060>;tag=0123456789abcdef-38|Call-ID: call200|CSeq: 7 ACK|Content-Length: 0|
at 2000 peer 1|REFER sip:room-1@127.0.0.1:5060 SIP/2.0|Via: SIP/2.0/UDP 127.0.0.1:5071;branch=z9hG4bKr1|Max-Forwards: 68|From: "Alice" <sip:alice@home.example>;tag=t2
|To: <sip:conf@home.example>;tag=0123456789abcdef-6|Call-ID: call2|CSeq: 8 REFER
|Refer-To: <sip:bob@home.example?Replaces=call1%3Bto-tag%3D0123456789abcdef-1%3Bfrom-tag%3Dt1>|Content-Length: 0|
at 2100 peer 1|BYE sip:127.0.0.1:5060 SIP/2.0|Via: SIP/2.0/UDP 127.0.0.1:5071;branch=z9hG4bKy1|Max-Forwards: 68|From: "Alice" <sip:alice@home.example>;tag=t1
|To: <sip:bob@home.example>;tag=0123456789abcdef-1|Call-ID: call1|CSeq: 8 BYE|Content-Length: 0|
~ 503 to the one; she has 202, NOTIFY of 100 and NOTIFY of 503, and her call goes on until she hangs up.
at 0 to 1|SIP/2.0 100 Trying|Via: SIP/2.0/UDP 127.0.0.1:5071;branch=z9hG4bKc1|From: "Alice" <sip:alice@home.example>;tag=t1|To: <sip:bob@home.example>|Call-ID: call1
|CSeq: 7 INVITE|Content-Length: 0|
at 0 to 1|INVITE sip:bob@home.example SIP/2.0|Via: SIP/2.0/UDP 127.0.0.1:5060;branch=z9hG4bK0123456789abcdef-4|Max-Forwards: 67
|From: "Alice" <sip:alice@home.example>;tag=0123456789abcdef-3|To: <sip:bob@home.example>|Call-ID: 0123456789abcdef-2|CSeq: 1 INVITE|Contact: <sip:127.0.0.1:5060>
|P-Asserted-Identity: <sip:alice@home.example>|Content-Length: 0|
at 200 to 1|SIP/2.0 200 OK|Via: SIP/2.0/UDP 127.0.0.1:5071;branch=z9hG4bKc1|From: "Alice" <sip:alice@home.example>;tag=t1
|To: <sip:bob@home.example>;tag=0123456789abcdef-1|Call-ID: call1|CSeq: 7 INVITE|Contact: <sip:127.0.0.1:5060>|Content-Length: 0|
at 300 to 1|ACK sip:bob1@127.0.0.1:5071 SIP/2.0|Via: SIP/2.0/UDP 127.0.0.1:5060;branch=z9hG4bK0123456789abcdef-5|Max-Forwards: 67
|From: "Alice" <sip:alice@home.example>;tag=0123456789abcdef-3|To: <sip:bob@home.example>;tag=b1|Call-ID: 0123456789abcdef-2|CSeq: 1 ACK|Content-Length: 0|
at 1000 to 1|SIP/2.0 200 OK|Via: SIP/2.0/UDP 127.0.0.1:5071;branch=z9hG4bKc2|From: "Alice" <sip:alice@home.example>;tag=t2
|To: <sip:conf@home.example>;tag=0123456789abcdef-6|Call-ID: call2|CSeq: 7 INVITE|Contact: <sip:room-1@127.0.0.1:5060>;isfocus|Content-Type: application/sdp
|Content-Length: 126||v=0|o=mixer 1 1 IN IP4 127.0.0.1|s=-|c=IN IP4 127.0.0.1|t=0 0|m=audio 40000 RTP/AVP 8|a=rtpmap:8 PCMA/8000|a=sendrecv
at 1000 to 1|SIP/2.0 200 OK|Via: SIP/2.0/UDP 127.0.0.1:5071;branch=z9hG4bKc100|From: "Alice" <sip:alice@home.example>;tag=t100
|To: <sip:room-1@127.0.0.1:5060>;tag=0123456789abcdef-7|Call-ID: call100|CSeq: 7 INVITE|Contact: <sip:room-1@127.0.0.1:5060>;isfocus|Content-Type: application/sdp
|Content-Length: 126||v=0|o=mixer 1 1 IN IP4 127.0.0.1|s=-|c=IN IP4 127.0.0.1|t=0 0|m=audio 40000 RTP/AVP 8|a=rtpmap:8 PCMA/8000|a=sendrecv
at 1000 to 1|SIP/2.0 200 OK|Via: SIP/2.0/UDP 127.0.0.1:5071;branch=z9hG4bKc101|From: "Alice" <sip:alice@home.example>;tag=t101
|To: <sip:room-1@127.0.0.1:5060>;tag=0123456789abcdef-8|Call-ID: call101|CSeq: 7 INVITE|Contact: <sip:room-1@127.0.0.1:5060>;isfocus|Content-Type: application/sdp
|Content-Length: 126||v=0|o=mixer 1 1 IN IP4 127.0.0.1|s=-|c=IN IP4 127.0.0.1|t=0 0|m=audio 40000 RTP/AVP 8|a=rtpmap:8 PCMA/8000|a=sendrecv
at 1000 to 1|SIP/2.0 200 OK|Via: SIP/2.0/UDP 127.0.0.1:5071;branch=z9hG4bKc102|From: "Alice" <sip:alice@home.example>;tag=t102
|To: <sip:room-1@127.0.0.1:5060>;tag=0123456789abcdef-9|Call-ID: call102|CSeq: 7 INVITE|Contact: <sip:room-1@127.0.0.1:5060>;isfocus|Content-Type: application/sdp
|Content-Length: 126||v=0|o=mixer 1 1 IN IP4 127.0.0.1|s=-|c=IN IP4 127.0.0.1|t=0 0|m=audio 40000 RTP/AVP 8|a=rtpmap:8 PCMA/8000|a=sendrecv
at 1000 to 1|SIP/2.0 200 OK|Via: SIP/2.0/UDP 127.0.0.1:5071;branch=z9hG4bKc103|From: "Alice" <sip:alice@home.example>;tag=t103
|To: <sip:room-1@127.0.0.1:5060>;tag=0123456789abcdef-10|Call-ID: call103|CSeq: 7 INVITE|Contact: <sip:room-1@127.0.0.1:5060>;isfocus|Content-Type: application/sdp
|Content-Length: 126||v=0|o=mixer 1 1 IN IP4 127.0.0.1|s=-|c=IN IP4 127.0.0.1|t=0 0|m=audio 40000 RTP/AVP 8|a=rtpmap:8 PCMA/8000|a=sendrecv
at 1000 to 1|SIP/2.0 200 OK|Via: SIP/2.0/UDP 127.0.0.1:5071;branch=z9hG4bKc104|From: "Alice" <sip:alice@home.example>;tag=t104
|To: <sip:room-1@127.0.0.1:5060>;tag=0123456789abcdef-11|Call-ID: call104|CSeq: 7 INVITE|Contact: <sip:room-1@127.0.0.1:5060>;isfocus|Content-Type: application/sdp
|Content-Length: 126||v=0|o=mixer 1 1 IN IP4 127.0.0.1|s=-|c=IN IP4 127.0.0.1|t=0 0|m=audio 40000 RTP/AVP 8|a=rtpmap:8 PCMA/8000|a=sendrecv
at 1000 to 1|SIP/2.0 200 OK|Via: SIP/2.0/UDP 127.0.0.1:5071;branch=z9hG4bKc105|From: "Alice" <sip:alice@home.example>;tag=t105
|To: <sip:room-1@127.0.0.1:5060>;tag=0123456789abcdef-12|Call-ID: call105|CSeq: 7 INVITE|Contact: <sip:room-1@127.0.0.1:5060>;isfocus|Content-Type: application/sdp
|Content-Length: 126||v=0|o=mixer 1 1 IN IP4 127.0.0.1|s=-|c=IN IP4 127.0.0.1|t=0 0|m=audio 40000 RTP/AVP 8|a=rtpmap:8 PCMA/8000|a=sendrecv
at 1000 to 1|SIP/2.0 200 OK|Via: SIP/2.0/UDP 127.0.0.1:5071;branch=z9hG4bKc106|From: "Alice" <sip:alice@home.example>;tag=t106
|To: <sip:room-1@127.0.0.1:5060>;tag=0123456789abcdef-13|Call-ID: call106|CSeq: 7 INVITE|Contact: <sip:room-1@127.0.0.1:5060>;isfocus|Content-Type: application/sdp
|Content-Length: 126||v=0|o=mixer 1 1 IN IP4 127.0.0.1|s=-|c=IN IP4 127.0.0.1|t=0 0|m=audio 40000 RTP/AVP 8|a=rtpmap:8 PCMA/8000|a=sendrecv
at 1000 to 1|SIP/2.0 200 OK|Via: SIP/2.0/UDP 127.0.0.1:5071;branch=z9hG4bKc107|From: "Alice" <sip:alice@home.example>;tag=t107
|To: <sip:room-1@127.0.0.1:5060>;tag=0123456789abcdef-14|Call-ID: call107|CSeq: 7 INVITE|Contact: <sip:room-1@127.0.0.1:5060>;isfocus|Content-Type: application/sdp
|Content-Length: 126||v=0|o=mixer 1 1 IN IP4 127.0.0.1|s=-|c=IN IP4 127.0.0.1|t=0 0|m=audio 40000 RTP/AVP 8|a=rtpmap:8 PCMA/8000|a=sendrecv
at 1000 to 1|SIP/2.0 200 OK|Via: SIP/2.0/UDP 127.0.0.1:5071;branch=z9hG4bKc108|From: "Alice" <sip:alice@home.example>;tag=t108
|To: <sip:room-1@127.0.0.1:5060>;tag=0123456789abcdef-15|Call-ID: call108|CSeq: 7 INVITE|Contact: <sip:room-1@127.0.0.1:5060>;isfocus|Content-Type: application/sdp
|Content-Length: 126||v=0|o=mixer 1 1 IN IP4 127.0.0.1|s=-|c=IN IP4 127.0.0.1|t=0 0|m=audio 40000 RTP/AVP 8|a=rtpmap:8 PCMA/8000|a=sendrecv
at 1000 to 1|SIP/2.0 200 OK|Via: SIP/2.0/UDP 127.0.0.1:5071;branch=z9hG4bKc109|From: "Alice" <sip:alice@home.example>;tag=t109
|To: <sip:room-1@127.0.0.1:5060>;tag=0123456789abcdef-16|Call-ID: call109|CSeq: 7 INVITE|Contact: <sip:room-1@127.0.0.1:5060>;isfocus|Content-Type: application/sdp
|Content-Length: 126||v=0|o=mixer 1 1 IN IP4 127.0.0.1|s=-|c=IN IP4 127.0.0.1|t=0 0|m=audio 40000 RTP/AVP 8|a=rtpmap:8 PCMA/8000|a=sendrecv
at 1000 to 1|SIP/2.0 200 OK|Via: SIP/2.0/UDP 127.0.0.1:5071;branch=z9hG4bKc110|From: "Alice" <sip:alice@home.example>;tag=t110
|To: <sip:room-1@127.0.0.1:5060>;tag=0123456789abcdef-17|Call-ID: call110|CSeq: 7 INVITE|Contact: <sip:room-1@127.0.0.1:5060>;isfocus|Content-Type: application/sdp
|Content-Length: 126||v=0|o=mixer 1 1 IN IP4 127.0.0.1|s=-|c=IN IP4 127.0.0.1|t=0 0|m=audio 40000 RTP/AVP 8|a=rtpmap:8 PCMA/8000|a=sendrecv
at 1000 to 1|SIP/2.0 200 OK|Via: SIP/2.0/UDP 127.0.0.1:5071;branch=z9hG4bKc111|From: "Alice" <sip:alice@home.example>;tag=t111
|To: <sip:room-1@127.0.0.1:5060>;tag=0123456789abcdef-18|Call-ID: call111|CSeq: 7 INVITE|Contact: <sip:room-1@127.0.0.1:5060>;isfocus|Content-Type: application/sdp
|Content-Length: 126||v=0|o=mixer 1 1 IN IP4 127.0.0.1|s=-|c=IN IP4 127.0.0.1|t=0 0|m=audio 40000 RTP/AVP 8|a=rtpmap:8 PCMA/8000|a=sendrecv
at 1000 to 1|SIP/2.0 200 OK|Via: SIP/2.0/UDP 127.0.0.1:5071;branch=z9hG4bKc112|From: "Alice" <sip:alice@home.example>;tag=t112
|To: <sip:room-1@127.0.0.1:5060>;tag=0123456789abcdef-19|Call-ID: call112|CSeq: 7 INVITE|Contact: <sip:room-1@127.0.0.1:5060>;isfocus|Content-Type: application/sdp
|Content-Length: 126||v=0|o=mixer 1 1 IN IP4 127.0.0.1|s=-|c=IN IP4 127.0.0.1|t=0 0|m=audio 40000 RTP/AVP 8|a=rtpmap:8 PCMA/8000|a=sendrecv
at 1000 to 1|SIP/2.0 200 OK|Via: SIP/2.0/UDP 127.0.0.1:5071;branch=z9hG4bKc113|From: "Alice" <sip:alice@home.example>;tag=t113
|To: <sip:room-1@127.0.0.1:5060>;tag=0123456789abcdef-20|Call-ID: call113|CSeq: 7 INVITE|Contact: <sip:room-1@127.0.0.1:5060>;isfocus|Content-Type: application/sdp
|Content-Length: 126||v=0|o=mixer 1 1 IN IP4 127.0.0.1|s=-|c=IN IP4 127.0.0.1|t=0 0|m=audio 40000 RTP/AVP 8|a=rtpmap:8 PCMA/8000|a=sendrecv
at 1000 to 1|SIP/2.0 200 OK|Via: SIP/2.0/UDP 127.0.0.1:5071;branch=z9hG4bKc114|From: "Alice" <sip:alice@home.example>;tag=t114
|To: <sip:room-1@127.0.0.1:5060>;tag=0123456789abcdef-21|Call-ID: call114|CSeq: 7 INVITE|Contact: <sip:room-1@127.0.0.1:5060>;isfocus|Content-Type: application/sdp
|Content-Length: 126||v=0|o=mixer 1 1 IN IP4 127.0.0.1|s=-|c=IN IP4 127.0.0.1|t=0 0|m=audio 40000 RTP/AVP 8|a=rtpmap:8 PCMA/8000|a=sendrecv
at 1000 to 1|SIP/2.0 200 OK|Via: SIP/2.0/UDP 127.0.0.1:5071;branch=z9hG4bKc115|From: "Alice" <sip:alice@home.example>;tag=t115
|To: <sip:room-1@127.0.0.1:5060>;tag=0123456789abcdef-22|Call-ID: call115|CSeq: 7 INVITE|Contact: <sip:room-1@127.0.0.1:5060>;isfocus|Content-Type: application/sdp
|Content-Length: 126||v=0|o=mixer 1 1 IN IP4 127.0.0.1|s=-|c=IN IP4 127.0.0.1|t=0 0|m=audio 40000 RTP/AVP 8|a=rtpmap:8 PCMA/8000|a=sendrecv
at 1000 to 1|SIP/2.0 200 OK|Via: SIP/2.0/UDP 127.0.0.1:5071;branch=z9hG4bKc116|From: "Alice" <sip:alice@home.example>;tag=t116
|To: <sip:room-1@127.0.0.1:5060>;tag=0123456789abcdef-23|Call-ID: call116|CSeq: 7 INVITE|Contact: <sip:room-1@127.0.0.1:5060>;isfocus|Content-Type: application/sdp
|Content-Length: 126||v=0|o=mixer 1 1 IN IP4 127.0.0.1|s=-|c=IN IP4 127.0.0.1|t=0 0|m=audio 40000 RTP/AVP 8|a=rtpmap:8 PCMA/8000|a=sendrecv
at 1000 to 1|SIP/2.0 200 OK|Via: SIP/2.0/UDP 127.0.0.1:5071;branch=z9hG4bKc117|From: "Alice" <sip:alice@home.example>;tag=t117
|To: <sip:room-1@127.0.0.1:5060>;tag=0123456789abcdef-24|Call-ID: call117|CSeq: 7 INVITE|Contact: <sip:room-1@127.0.0.1:5060>;isfocus|Content-Type: application/sdp
|Content-Length: 126||v=0|o=mixer 1 1 IN IP4 127.0.0.1|s=-|c=IN IP4 127.0.0.1|t=0 0|m=audio 40000 RTP/AVP 8|a=rtpmap:8 PCMA/8000|a=sendrecv
at 1000 to 1|SIP/2.0 200 OK|Via: SIP/2.0/UDP 127.0.0.1:5071;branch=z9hG4bKc118|From: "Alice" <sip:alice@home.example>;tag=t118
|To: <sip:room-1@127.0.0.1:5060>;tag=0123456789abcdef-25|Call-ID: call118|CSeq: 7 INVITE|Contact: <sip:room-1@127.0.0.1:5060>;isfocus|Content-Type: application/sdp
|Content-Length: 126||v=0|o=mixer 1 1 IN IP4 127.0.0.1|s=-|c=IN IP4 127.0.0.1|t=0 0|m=audio 40000 RTP/AVP 8|a=rtpmap:8 PCMA/8000|a=sendrecv
at 1000 to 1|SIP/2.0 200 OK|Via: SIP/2.0/UDP 127.0.0.1:5071;branch=z9hG4bKc119|From: "Alice" <sip:alice@home.example>;tag=t119
|To: <sip:room-1@127.0.0.1:5060>;tag=0123456789abcdef-26|Call-ID: call119|CSeq: 7 INVITE|Contact: <sip:room-1@127.0.0.1:5060>;isfocus|Content-Type: application/sdp
|Content-Length: 126||v=0|o=mixer 1 1 IN IP4 127.0.0.1|s=-|c=IN IP4 127.0.0.1|t=0 0|m=audio 40000 RTP/AVP 8|a=rtpmap:8 PCMA/8000|a=sendrecv
at 1000 to 1|SIP/2.0 200 OK|Via: SIP/2.0/UDP 127.0.0.1:5071;branch=z9hG4bKc120|From: "Alice" <sip:alice@home.example>;tag=t120
|To: <sip:room-1@127.0.0.1:5060>;tag=0123456789abcdef-27|Call-ID: call120|CSeq: 7 INVITE|Contact: <sip:room-1@127.0.0.1:5060>;isfocus|Content-Type: application/sdp
|Content-Length: 126||v=0|o=mixer 1 1 IN IP4 127.0.0.1|s=-|c=IN IP4 127.0.0.1|t=0 0|m=audio 40000 RTP/AVP 8|a=rtpmap:8 PCMA/8000|a=sendrecv
at 1000 to 1|SIP/2.0 200 OK|Via: SIP/2.0/UDP 127.0.0.1:5071;branch=z9hG4bKc121|From: "Alice" <sip:alice@home.example>;tag=t121
|To: <sip:room-1@127.0.0.1:5060>;tag=0123456789abcdef-28|Call-ID: call121|CSeq: 7 INVITE|Contact: <sip:room-1@127.0.0.1:5060>;isfocus|Content-Type: application/sdp
|Content-Length: 126||v=0|o=mixer 1 1 IN IP4 127.0.0.1|s=-|c=IN IP4 127.0.0.1|t=0 0|m=audio 40000 RTP/AVP 8|a=rtpmap:8 PCMA/8000|a=sendrecv
at 1000 to 1|SIP/2.0 200 OK|Via: SIP/2.0/UDP 127.0.0.1:5071;branch=z9hG4bKc122|From: "Alice" <sip:alice@home.example>;tag=t122
|To: <sip:room-1@127.0.0.1:5060>;tag=0123456789abcdef-29|Call-ID: call122|CSeq: 7 INVITE|Contact: <sip:room-1@127.0.0.1:5060>;isfocus|Content-Type: application/sdp
|Content-Length: 126||v=0|o=mixer 1 1 IN IP4 127.0.0.1|s=-|c=IN IP4 127.0.0.1|t=0 0|m=audio 40000 RTP/AVP 8|a=rtpmap:8 PCMA/8000|a=sendrecv
at 1000 to 1|SIP/2.0 200 OK|Via: SIP/2.0/UDP 127.0.0.1:5071;branch=z9hG4bKc123|From: "Alice" <sip:alice@home.example>;tag=t123
|To: <sip:room-1@127.0.0.1:5060>;tag=0123456789abcdef-30|Call-ID: call123|CSeq: 7 INVITE|Contact: <sip:room-1@127.0.0.1:5060>;isfocus|Content-Type: application/sdp
|Content-Length: 126||v=0|o=mixer 1 1 IN IP4 127.0.0.1|s=-|c=IN IP4 127.0.0.1|t=0 0|m=audio 40000 RTP/AVP 8|a=rtpmap:8 PCMA/8000|a=sendrecv
at 1000 to 1|SIP/2.0 200 OK|Via: SIP/2.0/UDP 127.0.0.1:5071;branch=z9hG4bKc124|From: "Alice" <sip:alice@home.example>;tag=t124
|To: <sip:room-1@127.0.0.1:5060>;tag=0123456789abcdef-31|Call-ID: call124|CSeq: 7 INVITE|Contact: <sip:room-1@127.0.0.1:5060>;isfocus|Content-Type: application/sdp
|Content-Length: 126||v=0|o=mixer 1 1 IN IP4 127.0.0.1|s=-|c=IN IP4 127.0.0.1|t=0 0|m=audio 40000 RTP/AVP 8|a=rtpmap:8 PCMA/8000|a=sendrecv
at 1000 to 1|SIP/2.0 200 OK|Via: SIP/2.0/UDP 127.0.0.1:5071;branch=z9hG4bKc125|From: "Alice" <sip:alice@home.example>;tag=t125
|To: <sip:room-1@127.0.0.1:5060>;tag=0123456789abcdef-32|Call-ID: call125|CSeq: 7 INVITE|Contact: <sip:room-1@127.0.0.1:5060>;isfocus|Content-Type: application/sdp
|Content-Length: 126||v=0|o=mixer 1 1 IN IP4 127.0.0.1|s=-|c=IN IP4 127.0.0.1|t=0 0|m=audio 40000 RTP/AVP 8|a=rtpmap:8 PCMA/8000|a=sendrecv
at 1000 to 1|SIP/2.0 200 OK|Via: SIP/2.0/UDP 127.0.0.1:5071;branch=z9hG4bKc126|From: "Alice" <sip:alice@home.example>;tag=t126
|To: <sip:room-1@127.0.0.1:5060>;tag=0123456789abcdef-33|Call-ID: call126|CSeq: 7 INVITE|Contact: <sip:room-1@127.0.0.1:5060>;isfocus|Content-Type: application/sdp
|Content-Length: 126||v=0|o=mixer 1 1 IN IP4 127.0.0.1|s=-|c=IN IP4 127.0.0.1|t=0 0|m=audio 40000 RTP/AVP 8|a=rtpmap:8 PCMA/8000|a=sendrecv
at 1000 to 1|SIP/2.0 200 OK|Via: SIP/2.0/UDP 127.0.0.1:5071;branch=z9hG4bKc127|From: "Alice" <sip:alice@home.example>;tag=t127
|To: <sip:room-1@127.0.0.1:5060>;tag=0123456789abcdef-34|Call-ID: call127|CSeq: 7 INVITE|Contact: <sip:room-1@127.0.0.1:5060>;isfocus|Content-Type: application/sdp
|Content-Length: 126||v=0|o=mixer 1 1 IN IP4 127.0.0.1|s=-|c=IN IP4 127.0.0.1|t=0 0|m=audio 40000 RTP/AVP 8|a=rtpmap:8 PCMA/8000|a=sendrecv
at 1000 to 1|SIP/2.0 200 OK|Via: SIP/2.0/UDP 127.0.0.1:5071;branch=z9hG4bKc128|From: "Alice" <sip:alice@home.example>;tag=t128
|To: <sip:room-1@127.0.0.1:5060>;tag=0123456789abcdef-35|Call-ID: call128|CSeq: 7 INVITE|Contact: <sip:room-1@127.0.0.1:5060>;isfocus|Content-Type: application/sdp
|Content-Length: 126||v=0|o=mixer 1 1 IN IP4 127.0.0.1|s=-|c=IN IP4 127.0.0.1|t=0 0|m=audio 40000 RTP/AVP 8|a=rtpmap:8 PCMA/8000|a=sendrecv
at 1000 to 1|SIP/2.0 200 OK|Via: SIP/2.0/UDP 127.0.0.1:5071;branch=z9hG4bKc129|From: "Alice" <sip:alice@home.example>;tag=t129
|To: <sip:room-1@127.0.0.1:5060>;tag=0123456789abcdef-36|Call-ID: call129|CSeq: 7 INVITE|Contact: <sip:room-1@127.0.0.1:5060>;isfocus|Content-Type: application/sdp
|Content-Length: 126||v=0|o=mixer 1 1 IN IP4 127.0.0.1|s=-|c=IN IP4 127.0.0.1|t=0 0|m=audio 40000 RTP/AVP 8|a=rtpmap:8 PCMA/8000|a=sendrecv
at 1000 to 1|SIP/2.0 200 OK|Via: SIP/2.0/UDP 127.0.0.1:5071;branch=z9hG4bKc130|From: "Alice" <sip:alice@home.example>;tag=t130
|To: <sip:room-1@127.0.0.1:5060>;tag=0123456789abcdef-37|Call-ID: call130|CSeq: 7 INVITE|Contact: <sip:room-1@127.0.0.1:5060>;isfocus|Content-Type: application/sdp
|Content-Length: 126||v=0|o=mixer 1 1 IN IP4 127.0.0.1|s=-|c=IN IP4 127.0.0.1|t=0 0|m=audio 40000 RTP/AVP 8|a=rtpmap:8 PCMA/8000|a=sendrecv
at 1000 to 1|SIP/2.0 503 Service Unavailable|Via: SIP/2.0/UDP 127.0.0.1:5071;branch=z9hG4bKc200|From: "Alice" <sip:alice@home.example>;tag=t200
|To: <sip:room-1@127.0.0.1:5060>;tag=0123456789abcdef-38|Call-ID: call200|CSeq: 7 INVITE|Content-Length: 0|
at 2000 to 1|SIP/2.0 202 Accepted|Via: SIP/2.0/UDP 127.0.0.1:5071;branch=z9hG4bKr1|From: "Alice" <sip:alice@home.example>;tag=t2
|To: <sip:conf@home.example>;tag=0123456789abcdef-6|Call-ID: call2|CSeq: 8 REFER|Contact: <sip:room-1@127.0.0.1:5060>;isfocus|Content-Length: 0|
at 2000 to 1|NOTIFY sip:alice@127.0.0.1:5071 SIP/2.0|Via: SIP/2.0/UDP 127.0.0.1:5060;branch=z9hG4bK0123456789abcdef-39|Max-Forwards: 70
|From: <sip:conf@home.example>;tag=0123456789abcdef-6|To: "Alice" <sip:alice@home.example>;tag=t2|Call-ID: call2|CSeq: 1 NOTIFY
|Contact: <sip:room-1@127.0.0.1:5060>;isfocus|Event: refer|Subscription-State: active;expires=180|Content-Type: message/sipfrag;version=2.0|Content-Length: 20|
|SIP/2.0 100 Trying
at 2000 to 1|NOTIFY sip:alice@127.0.0.1:5071 SIP/2.0|Via: SIP/2.0/UDP 127.0.0.1:5060;branch=z9hG4bK0123456789abcdef-40|Max-Forwards: 70
|From: <sip:conf@home.example>;tag=0123456789abcdef-6|To: "Alice" <sip:alice@home.example>;tag=t2|Call-ID: call2|CSeq: 2 NOTIFY
|Contact: <sip:room-1@127.0.0.1:5060>;isfocus|Event: refer|Subscription-State: terminated;reason=noresource|Content-Type: message/sipfrag;version=2.0|Content-Length: 33|
|SIP/2.0 503 Service Unavailable
at 2100 to 1|SIP/2.0 200 OK|Via: SIP/2.0/UDP 127.0.0.1:5071;branch=z9hG4bKy1|From: "Alice" <sip:alice@home.example>;tag=t1
|To: <sip:bob@home.example>;tag=0123456789abcdef-1|Call-ID: call1|CSeq: 8 BYE|Content-Length: 0|
at 2100 to 1|BYE sip:bob1@127.0.0.1:5071 SIP/2.0|Via: SIP/2.0/UDP 127.0.0.1:5060;branch=z9hG4bK0123456789abcdef-41|Max-Forwards: 67
|From: "Alice" <sip:alice@home.example>;tag=0123456789abcdef-3|To: <sip:bob@home.example>;tag=b1|Call-ID: 0123456789abcdef-2|CSeq: 2 BYE|Content-Length: 0|
"#;

#[test]
fn full_rooms(rt: HostRuntime) {
    assert_right(&rt, "FULL", wrong_run(rt.alloc(), FULL));
}
