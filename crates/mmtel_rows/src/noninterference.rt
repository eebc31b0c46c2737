//! Pairs of runs of calls and conferences that differ in who requests privacy, also under two configurations that name that person differently, and what is sent to the untrusted
//! peer in both, moments included (RFC 3323 §4, RFC 3325 §7).

use crate::asserting::assert_right;
use crate::pairs::wrong_pair;

/// They differ in private places only, and the other parties respond in the same way; with conferences, also for whoever creates one, and for whoever is taken over into one.
const ALIKE: &[u8] =
    br#"~ A caller who asks for privacy is answered, acknowledges with lines of her own, and hangs up.
at 0 peer 1|INVITE sip:bob@far.example SIP/2.0|Via: SIP/2.0/UDP 127.0.0.1:5071;branch=z9hG4bKa1|Max-Forwards: 68
|From: "{Erin^Frank}" <sip:{erin^frank}@other.example>;tag=a|To: <sip:bob@far.example>|Call-ID: c1|CSeq: 7 INVITE|Contact: <sip:{erin^frank}@127.0.0.1:5071>
|P-Asserted-Identity: <sip:{erin^frank}@other.example>|Privacy: id|User-Agent: {one^another}|Content-Length: 0|
at 100 peer 2|SIP/2.0 180 Ringing|Via: SIP/2.0/UDP 127.0.0.1:5060;branch=z9hG4bK0123456789abcdef-4
|From: "Anonymous" <sip:anonymous@anonymous.invalid>;tag=0123456789abcdef-3|To: <sip:bob@far.example>;tag=bt|Call-ID: 0123456789abcdef-2|CSeq: 1 INVITE|Content-Length: 0|
at 200 peer 2|SIP/2.0 200 OK|Via: SIP/2.0/UDP 127.0.0.1:5060;branch=z9hG4bK0123456789abcdef-4|From: "Anonymous" <sip:anonymous@anonymous.invalid>;tag=0123456789abcdef-3
|To: <sip:bob@far.example>;tag=bt|Call-ID: 0123456789abcdef-2|CSeq: 1 INVITE|Contact: <sip:bob@127.0.0.1:5072>|Content-Length: 0|
at 300 peer 1|ACK sip:127.0.0.1:5060 SIP/2.0|Via: SIP/2.0/UDP 127.0.0.1:5071;branch=z9hG4bKk|Max-Forwards: 68|From: "{Erin^Frank}" <sip:{erin^frank}@other.example>;tag=a
|To: <sip:bob@far.example>;tag=0123456789abcdef-1|Call-ID: c1|CSeq: 7 ACK|Subject: {one^another}|P-Asserted-Identity: <sip:{erin^frank}@other.example>|Content-Length: 0|
at 400 peer 1|BYE sip:127.0.0.1:5060 SIP/2.0|Via: SIP/2.0/UDP 127.0.0.1:5071;branch=z9hG4bKy|Max-Forwards: 68|From: "{Erin^Frank}" <sip:{erin^frank}@other.example>;tag=a
|To: <sip:bob@far.example>;tag=0123456789abcdef-1|Call-ID: c1|CSeq: 8 BYE|User-Agent: {one^another}|P-Asserted-Identity: <sip:{erin^frank}@other.example>
|Content-Length: 0|
~ The callee hangs up, and her phone answers the server's BYE in her name, as phones do, and again when the server knows nothing of it any more.
at 0 peer 1|INVITE sip:bob@far.example SIP/2.0|Via: SIP/2.0/UDP 127.0.0.1:5071;branch=z9hG4bKa1|Max-Forwards: 68
|From: "{Erin^Frank}" <sip:{erin^frank}@other.example>;tag=a|To: <sip:bob@far.example>|Call-ID: c1|CSeq: 7 INVITE|Contact: <sip:{erin^frank}@127.0.0.1:5071>
|P-Asserted-Identity: <sip:{erin^frank}@other.example>|Privacy: id|User-Agent: {one^another}|Content-Length: 0|
at 200 peer 2|SIP/2.0 200 OK|Via: SIP/2.0/UDP 127.0.0.1:5060;branch=z9hG4bK0123456789abcdef-4|From: "Anonymous" <sip:anonymous@anonymous.invalid>;tag=0123456789abcdef-3
|To: <sip:bob@far.example>;tag=bt|Call-ID: 0123456789abcdef-2|CSeq: 1 INVITE|Contact: <sip:bob@127.0.0.1:5072>|Content-Length: 0|
at 300 peer 1|ACK sip:127.0.0.1:5060 SIP/2.0|Via: SIP/2.0/UDP 127.0.0.1:5071;branch=z9hG4bKk|Max-Forwards: 68|From: "{Erin^Frank}" <sip:{erin^frank}@other.example>;tag=a
|To: <sip:bob@far.example>;tag=0123456789abcdef-1|Call-ID: c1|CSeq: 7 ACK|Subject: {one^another}|Content-Length: 0|
at 400 peer 2|BYE sip:127.0.0.1:5060 SIP/2.0|Via: SIP/2.0/UDP 127.0.0.1:5072;branch=z9hG4bKy|Max-Forwards: 68|From: <sip:bob@far.example>;tag=bt
|To: "Anonymous" <sip:anonymous@anonymous.invalid>;tag=0123456789abcdef-3|Call-ID: 0123456789abcdef-2|CSeq: 1 BYE|Content-Length: 0|
at 410 peer 1|SIP/2.0 200 OK|Via: SIP/2.0/UDP 127.0.0.1:5060;branch=z9hG4bK0123456789abcdef-6|From: <sip:bob@far.example>;tag=0123456789abcdef-1
|To: "{Erin^Frank}" <sip:{erin^frank}@other.example>;tag=a|Call-ID: c1|CSeq: 1 BYE|Contact: <sip:{erin^frank}@127.0.0.1:5071>
|P-Asserted-Identity: <sip:{erin^frank}@other.example>|Server: {one^another}|Content-Length: 0|
at 9000 peer 1|SIP/2.0 200 OK|Via: SIP/2.0/UDP 127.0.0.1:5060;branch=z9hG4bK0123456789abcdef-6|From: <sip:bob@far.example>;tag=0123456789abcdef-1
|To: "{Erin^Frank}" <sip:{erin^frank}@other.example>;tag=a|Call-ID: c1|CSeq: 1 BYE|Contact: <sip:{erin^frank}@127.0.0.1:5071>
|P-Asserted-Identity: <sip:{erin^frank}@other.example>|Server: {one^another}|Content-Length: 0|
~ She asks once more when her INVITE rings, gives it up, and acknowledges that it was given up; nothing of these goes further, whoever says it.
at 0 peer 1|INVITE sip:bob@far.example SIP/2.0|Via: SIP/2.0/UDP 127.0.0.1:5071;branch=z9hG4bKa1|Max-Forwards: 68|From: "Erin" <sip:erin@other.example>;tag=a
|To: <sip:bob@far.example>|Call-ID: c1|CSeq: 7 INVITE|Contact: <sip:erin@127.0.0.1:5071>|Content-Length: 0|
at 100 peer 2|SIP/2.0 180 Ringing|Via: SIP/2.0/UDP 127.0.0.1:5060;branch=z9hG4bK0123456789abcdef-4|From: "Erin" <sip:erin@other.example>;tag=0123456789abcdef-3
|To: <sip:bob@far.example>;tag=bt|Call-ID: 0123456789abcdef-2|CSeq: 1 INVITE|Content-Length: 0|
at 200 peer 1|INVITE sip:bob@far.example SIP/2.0|Via: SIP/2.0/UDP 127.0.0.1:5071;branch=z9hG4bKa1|Max-Forwards: 68|From: "{Erin^Frank}" <sip:{erin^frank}@other.example>;tag=a
|To: <sip:bob@far.example>|Call-ID: c1|CSeq: 7 INVITE|Contact: <sip:{erin^frank}@127.0.0.1:5071>|P-Served-User: <sip:{erin^frank}@other.example>;sescase=orig|Content-Length: 0|
at 300 peer 1|CANCEL sip:bob@far.example SIP/2.0|Via: SIP/2.0/UDP 127.0.0.1:5071;branch=z9hG4bKa1|Max-Forwards: 68|From: "{Erin^Frank}" <sip:{erin^frank}@other.example>;tag=a
|To: <sip:bob@far.example>|Call-ID: c1|CSeq: 7 CANCEL|P-Asserted-Identity: <sip:{erin^frank}@other.example>|User-Agent: {one^another}|Content-Length: 0|
at 310 peer 2|SIP/2.0 200 OK|Via: SIP/2.0/UDP 127.0.0.1:5060;branch=z9hG4bK0123456789abcdef-4|From: "Erin" <sip:erin@other.example>;tag=0123456789abcdef-3
|To: <sip:bob@far.example>;tag=bt|Call-ID: 0123456789abcdef-2|CSeq: 1 CANCEL|Content-Length: 0|
at 320 peer 2|SIP/2.0 487 Request Terminated|Via: SIP/2.0/UDP 127.0.0.1:5060;branch=z9hG4bK0123456789abcdef-4|From: "Erin" <sip:erin@other.example>;tag=0123456789abcdef-3
|To: <sip:bob@far.example>;tag=bt|Call-ID: 0123456789abcdef-2|CSeq: 1 INVITE|Content-Length: 0|
at 330 peer 1|ACK sip:bob@far.example SIP/2.0|Via: SIP/2.0/UDP 127.0.0.1:5071;branch=z9hG4bKa1|Max-Forwards: 68|From: "{Erin^Frank}" <sip:{erin^frank}@other.example>;tag=a
|To: <sip:bob@far.example>;tag=0123456789abcdef-1|Call-ID: c1|CSeq: 7 ACK|User-Agent: {one^another}|Content-Length: 0|
~ Beside a call of hers: what she asks of the server itself it tells nobody, nor what she says in no dialog, or in answer to nothing that was asked.
at 0 peer 1|INVITE sip:bob@far.example SIP/2.0|Via: SIP/2.0/UDP 127.0.0.1:5071;branch=z9hG4bKa1|Max-Forwards: 68|From: "Erin" <sip:erin@other.example>;tag=a
|To: <sip:bob@far.example>|Call-ID: c1|CSeq: 7 INVITE|Contact: <sip:erin@127.0.0.1:5071>|Content-Length: 0|
at 10 peer 1|OPTIONS sip:bob@home.example SIP/2.0|Via: SIP/2.0/UDP 127.0.0.1:5071;branch=z9hG4bKo1|Max-Forwards: 68
|From: "{Erin^Frank}" <sip:{erin^frank}@other.example>;tag=a|To: <sip:bob@home.example>|Call-ID: c2|CSeq: 1 OPTIONS|P-Asserted-Identity: <sip:{erin^frank}@other.example>
|Subject: {one^another}|Content-Length: 0|
at 20 peer 1|BYE sip:bob@home.example SIP/2.0|Via: SIP/2.0/UDP 127.0.0.1:5071;branch=z9hG4bKo2|Max-Forwards: 68|From: "{Erin^Frank}" <sip:{erin^frank}@other.example>;tag=a
|To: <sip:bob@home.example>;tag=b|Call-ID: c2|CSeq: 2 BYE|User-Agent: {one^another}|Content-Length: 0|
at 30 peer 1|ACK sip:bob@home.example SIP/2.0|Via: SIP/2.0/UDP 127.0.0.1:5071;branch=z9hG4bKo3|Max-Forwards: 68|From: "{Erin^Frank}" <sip:{erin^frank}@other.example>;tag=a
|To: <sip:bob@home.example>;tag=b|Call-ID: c2|CSeq: 2 ACK|Subject: {one^another}|Content-Length: 0|
at 40 peer 1|SIP/2.0 200 OK|Via: SIP/2.0/UDP 127.0.0.1:5060;branch=z9hG4bK0123456789abcdef-99|From: <sip:bob@far.example>;tag=x
|To: "{Erin^Frank}" <sip:{erin^frank}@other.example>;tag=a|Call-ID: c1|CSeq: 1 INVITE|Contact: <sip:{erin^frank}@127.0.0.1:5071>|Server: {one^another}|Content-Length: 0|
at 200 peer 2|SIP/2.0 486 Busy Here|Via: SIP/2.0/UDP 127.0.0.1:5060;branch=z9hG4bK0123456789abcdef-4|From: "Erin" <sip:erin@other.example>;tag=0123456789abcdef-3
|To: <sip:bob@far.example>;tag=bt|Call-ID: 0123456789abcdef-2|CSeq: 1 INVITE|Content-Length: 0|
~ The callee asks again in the call; her answer shows who she is, and so does her own INVITE.
at 0 peer 1|INVITE sip:bob@far.example SIP/2.0|Via: SIP/2.0/UDP 127.0.0.1:5071;branch=z9hG4bKa1|Max-Forwards: 68
|From: "{Erin^Frank}" <sip:{erin^frank}@other.example>;tag=a|To: <sip:bob@far.example>|Call-ID: c1|CSeq: 7 INVITE|Contact: <sip:{erin^frank}@127.0.0.1:5071>
|P-Asserted-Identity: <sip:{erin^frank}@other.example>|Privacy: id|User-Agent: {one^another}|Content-Length: 0|
at 100 peer 2|SIP/2.0 180 Ringing|Via: SIP/2.0/UDP 127.0.0.1:5060;branch=z9hG4bK0123456789abcdef-4
|From: "Anonymous" <sip:anonymous@anonymous.invalid>;tag=0123456789abcdef-3|To: <sip:bob@far.example>;tag=bt|Call-ID: 0123456789abcdef-2|CSeq: 1 INVITE|Content-Length: 0|
at 200 peer 2|SIP/2.0 200 OK|Via: SIP/2.0/UDP 127.0.0.1:5060;branch=z9hG4bK0123456789abcdef-4|From: "Anonymous" <sip:anonymous@anonymous.invalid>;tag=0123456789abcdef-3
|To: <sip:bob@far.example>;tag=bt|Call-ID: 0123456789abcdef-2|CSeq: 1 INVITE|Contact: <sip:bob@127.0.0.1:5072>|Content-Length: 0|
at 300 peer 1|ACK sip:127.0.0.1:5060 SIP/2.0|Via: SIP/2.0/UDP 127.0.0.1:5071;branch=z9hG4bKk|Max-Forwards: 68|From: "{Erin^Frank}" <sip:{erin^frank}@other.example>;tag=a
|To: <sip:bob@far.example>;tag=0123456789abcdef-1|Call-ID: c1|CSeq: 7 ACK|Subject: {one^another}|P-Asserted-Identity: <sip:{erin^frank}@other.example>|Content-Length: 0|
at 1000 peer 2|INVITE sip:127.0.0.1:5060 SIP/2.0|Via: SIP/2.0/UDP 127.0.0.1:5072;branch=z9hG4bKr|Max-Forwards: 68|From: <sip:bob@far.example>;tag=bt
|To: "Anonymous" <sip:anonymous@anonymous.invalid>;tag=0123456789abcdef-3|Call-ID: 0123456789abcdef-2|CSeq: 1 INVITE|Contact: <sip:bob@127.0.0.1:5072>|Content-Length: 0|
at 1010 peer 1|SIP/2.0 200 OK|Via: SIP/2.0/UDP 127.0.0.1:5060;branch=z9hG4bK0123456789abcdef-6|From: <sip:bob@far.example>;tag=0123456789abcdef-1
|To: "{Erin^Frank}" <sip:{erin^frank}@other.example>;tag=a|Call-ID: c1|CSeq: 1 INVITE|Contact: <sip:{erin^frank}@127.0.0.1:5071>
|P-Asserted-Identity: <sip:{erin^frank}@other.example>|Server: {one^another}|Content-Length: 0|
at 1020 peer 2|ACK sip:127.0.0.1:5060 SIP/2.0|Via: SIP/2.0/UDP 127.0.0.1:5072;branch=z9hG4bKs|Max-Forwards: 68|From: <sip:bob@far.example>;tag=bt
|To: "Anonymous" <sip:anonymous@anonymous.invalid>;tag=0123456789abcdef-3|Call-ID: 0123456789abcdef-2|CSeq: 1 ACK|Content-Length: 0|
at 2000 peer 1|INVITE sip:127.0.0.1:5060 SIP/2.0|Via: SIP/2.0/UDP 127.0.0.1:5071;branch=z9hG4bKt|Max-Forwards: 68
|From: "{Erin^Frank}" <sip:{erin^frank}@other.example>;tag=a|To: <sip:bob@far.example>;tag=0123456789abcdef-1|Call-ID: c1|CSeq: 8 INVITE
|Contact: <sip:{erin^frank}@127.0.0.1:5071>|P-Asserted-Identity: <sip:{erin^frank}@other.example>|User-Agent: {one^another}|Content-Length: 0|
at 2010 peer 2|SIP/2.0 200 OK|Via: SIP/2.0/UDP 127.0.0.1:5060;branch=z9hG4bK0123456789abcdef-8|From: "Anonymous" <sip:anonymous@anonymous.invalid>;tag=0123456789abcdef-3
|To: <sip:bob@far.example>;tag=bt|Call-ID: 0123456789abcdef-2|CSeq: 2 INVITE|Contact: <sip:bob@127.0.0.1:5072>|Content-Length: 0|
at 2020 peer 1|ACK sip:127.0.0.1:5060 SIP/2.0|Via: SIP/2.0/UDP 127.0.0.1:5071;branch=z9hG4bKu|Max-Forwards: 68|From: "{Erin^Frank}" <sip:{erin^frank}@other.example>;tag=a
|To: <sip:bob@far.example>;tag=0123456789abcdef-1|Call-ID: c1|CSeq: 8 ACK|Subject: {one^another}|Content-Length: 0|
~ Of two calls of a peer the first asks for privacy; the ACK of the second has the branch of the first.
at 0 peer 1|INVITE sip:bob@far.example SIP/2.0|Via: SIP/2.0/UDP 127.0.0.1:5071;branch=z9hG4bKa1|Max-Forwards: 68
|From: "{Erin^Frank}" <sip:{erin^frank}@other.example>;tag=a|To: <sip:bob@far.example>|Call-ID: c1|CSeq: 7 INVITE|Contact: <sip:{erin^frank}@127.0.0.1:5071>
|P-Asserted-Identity: <sip:{erin^frank}@other.example>|Privacy: id|Content-Length: 0|
at 0 peer 1|INVITE sip:bob@far.example SIP/2.0|Via: SIP/2.0/UDP 127.0.0.1:5071;branch=z9hG4bKb1|Max-Forwards: 68|From: "Erin" <sip:erin@other.example>;tag=b
|To: <sip:bob@far.example>|Call-ID: c2|CSeq: 7 INVITE|Contact: <sip:erin@127.0.0.1:5071>|P-Asserted-Identity: <sip:erin@other.example>|Content-Length: 0|
at 10 peer 2|SIP/2.0 200 OK|Via: SIP/2.0/UDP 127.0.0.1:5060;branch=z9hG4bK0123456789abcdef-8|From: "Erin" <sip:erin@other.example>;tag=0123456789abcdef-7
|To: <sip:bob@far.example>;tag=bt|Call-ID: 0123456789abcdef-6|CSeq: 1 INVITE|Contact: <sip:bob@127.0.0.1:5072>|Content-Length: 0|
at 20 peer 1|ACK sip:127.0.0.1:5060 SIP/2.0|Via: SIP/2.0/UDP 127.0.0.1:5071;branch=z9hG4bKa1|Max-Forwards: 68|From: "Erin" <sip:erin@other.example>;tag=b
|To: <sip:bob@far.example>;tag=0123456789abcdef-5|Call-ID: c2|CSeq: 7 ACK|Subject: one|Content-Length: 0|
~ A branch is used again when the transaction of the first call, which asked for privacy, has ended.
at 0 peer 1|INVITE sip:bob@far.example SIP/2.0|Via: SIP/2.0/UDP 127.0.0.1:5071;branch=z9hG4bKa1|Max-Forwards: 68
|From: "{Erin^Frank}" <sip:{erin^frank}@other.example>;tag=a|To: <sip:bob@far.example>|Call-ID: c1|CSeq: 7 INVITE|Contact: <sip:erin@127.0.0.1:5071>
|P-Asserted-Identity: <sip:erin@other.example>|Privacy: id|Content-Length: 0|
at 10 peer 2|SIP/2.0 486 Busy Here|Via: SIP/2.0/UDP 127.0.0.1:5060;branch=z9hG4bK0123456789abcdef-4
|From: "Anonymous" <sip:anonymous@anonymous.invalid>;tag=0123456789abcdef-3|To: <sip:bob@far.example>;tag=bt|Call-ID: 0123456789abcdef-2|CSeq: 1 INVITE|Content-Length: 0|
at 20 peer 1|ACK sip:bob@far.example SIP/2.0|Via: SIP/2.0/UDP 127.0.0.1:5071;branch=z9hG4bKa1|Max-Forwards: 68|From: "{Erin^Frank}" <sip:{erin^frank}@other.example>;tag=a
|To: <sip:bob@far.example>;tag=0123456789abcdef-1|Call-ID: c1|CSeq: 7 ACK|Content-Length: 0|
at 40000 peer 1|INVITE sip:bob@far.example SIP/2.0|Via: SIP/2.0/UDP 127.0.0.1:5071;branch=z9hG4bKa1|Max-Forwards: 68|From: "Erin" <sip:erin@other.example>;tag=b
|To: <sip:bob@far.example>|Call-ID: c2|CSeq: 7 INVITE|Contact: <sip:erin@127.0.0.1:5071>|P-Asserted-Identity: <sip:erin@other.example>|Content-Length: 0|
~ Her record restricts a caller for good, who is asserted by one of her two identities.
# [originating-identity-presentation-restriction]
# mode = "permanent"
at 0 web|PUT /simservs/1 HTTP/1.1|X-3GPP-Asserted-Identity: "sip:alice@home.example"|Content-Type: application/toml|Content-Length: 67|
x5b6f726967696e6174696e672d6964656e746974792d70726573656e746174696f6e2d7265737472696374696f6e5d0a6d6f6465203d20227065726d616e656e74220a
at 0 peer 1|INVITE sip:bob@far.example SIP/2.0|Via: SIP/2.0/UDP 127.0.0.1:5071;branch=z9hG4bKa1|Max-Forwards: 68
|From: "{Alice^A. L.}" <{sip:alice@home.example^tel:+4930111}>;tag=a|To: <sip:bob@far.example>|Call-ID: c1|CSeq: 7 INVITE|Contact: <sip:{alice^al}@127.0.0.1:5071>
|P-Asserted-Identity: <{sip:alice@home.example^tel:+4930111}>|User-Agent: {one^another}|Content-Length: 0|
~ So it is where the core asks for the services of the originating user alone, by either of them.
# [originating-identity-presentation-restriction]
# mode = "permanent"
at 0 web|PUT /simservs/1 HTTP/1.1|X-3GPP-Asserted-Identity: "sip:alice@home.example"|Content-Type: application/toml|Content-Length: 67|
x5b6f726967696e6174696e672d6964656e746974792d70726573656e746174696f6e2d7265737472696374696f6e5d0a6d6f6465203d20227065726d616e656e74220a
at 0 peer 1|INVITE sip:bob@far.example SIP/2.0|Via: SIP/2.0/UDP 127.0.0.1:5071;branch=z9hG4bKa1|Max-Forwards: 68
|From: "{Alice^A. L.}" <{sip:alice@home.example^tel:+4930111}>;tag=a|To: <sip:bob@far.example>|Call-ID: c1|CSeq: 7 INVITE|Contact: <sip:{alice^al}@127.0.0.1:5071>
|P-Asserted-Identity: <{sip:alice@home.example^tel:+4930111}>|P-Served-User: <{sip:alice@home.example^tel:+4930111}>;sescase=orig|Content-Length: 0|
~ His record restricts a callee for good; he answers, and hangs up.
# [terminating-identity-presentation-restriction]
# mode = "permanent"
at 0 web|PUT /simservs/2 HTTP/1.1|X-3GPP-Asserted-Identity: "sip:bob@home.example"|Content-Type: application/toml|Content-Length: 67|
x5b7465726d696e6174696e672d6964656e746974792d70726573656e746174696f6e2d7265737472696374696f6e5d0a6d6f6465203d20227065726d616e656e74220a
at 0 peer 2|INVITE sip:bob@home.example SIP/2.0|Via: SIP/2.0/UDP 127.0.0.1:5072;branch=z9hG4bKa1|Max-Forwards: 68|From: "Erin" <sip:erin@other.example>;tag=a
|To: <sip:bob@home.example>|Call-ID: c1|CSeq: 7 INVITE|Contact: <sip:erin@127.0.0.1:5072>|Content-Length: 0|
at 100 peer 1|SIP/2.0 181 Call Is Being Forwarded|Via: SIP/2.0/UDP 127.0.0.1:5060;branch=z9hG4bK0123456789abcdef-4
|From: "Erin" <sip:erin@other.example>;tag=0123456789abcdef-3|To: "{Bob^Robert}" <sip:{bob^robert}@home.example>;tag=b1|Call-ID: 0123456789abcdef-2|CSeq: 1 INVITE
|Contact: <sip:{bob1^bob2}@127.0.0.1:5071>|P-Asserted-Identity: "{Bob^Robert}" <sip:bob@home.example>|Server: {one^another}|Content-Length: 0|
at 200 peer 1|SIP/2.0 200 OK|Via: SIP/2.0/UDP 127.0.0.1:5060;branch=z9hG4bK0123456789abcdef-4|From: "Erin" <sip:erin@other.example>;tag=0123456789abcdef-3
|To: "{Bob^Robert}" <sip:{bob^robert}@home.example>;tag=b1|Call-ID: 0123456789abcdef-2|CSeq: 1 INVITE|Contact: <sip:{bob1^bob2}@127.0.0.1:5071>
|P-Asserted-Identity: "{Bob^Robert}" <sip:bob@home.example>|Server: {one^another}|Content-Length: 0|
at 300 peer 2|ACK sip:127.0.0.1:5060 SIP/2.0|Via: SIP/2.0/UDP 127.0.0.1:5072;branch=z9hG4bKk|Max-Forwards: 68|From: "Erin" <sip:erin@other.example>;tag=a
|To: <sip:bob@home.example>;tag=0123456789abcdef-1|Call-ID: c1|CSeq: 7 ACK|Content-Length: 0|
at 400 peer 1|BYE sip:127.0.0.1:5060 SIP/2.0|Via: SIP/2.0/UDP 127.0.0.1:5071;branch=z9hG4bKy|Max-Forwards: 68|From: "{Bob^Robert}" <sip:{bob^robert}@home.example>;tag=b1
|To: "Erin" <sip:erin@other.example>;tag=0123456789abcdef-3|Call-ID: 0123456789abcdef-2|CSeq: 1 BYE|User-Agent: {one^another}
|P-Asserted-Identity: <sip:{bob^robert}@home.example>|Content-Length: 0|
~ An entry of the history is marked (RFC 7044 section 10.1): it is not shown in the INVITE, nor in the next one of the call.
at 0 peer 1|INVITE sip:bob@far.example SIP/2.0|Via: SIP/2.0/UDP 127.0.0.1:5071;branch=z9hG4bKa1|Max-Forwards: 68|From: "Erin" <sip:erin@other.example>;tag=a
|To: <sip:bob@far.example>|Call-ID: c1|CSeq: 7 INVITE|Contact: <sip:erin@127.0.0.1:5071>|P-Asserted-Identity: <sip:erin@other.example>
|History-Info: <sip:{carol^dave}@home.example?Privacy=history>;index=1|History-Info: <sip:bob@far.example;cause=302>;index=1.1|Content-Length: 0|
at 100 peer 2|SIP/2.0 200 OK|Via: SIP/2.0/UDP 127.0.0.1:5060;branch=z9hG4bK0123456789abcdef-4|From: "Erin" <sip:erin@other.example>;tag=0123456789abcdef-3
|To: <sip:bob@far.example>;tag=bt|Call-ID: 0123456789abcdef-2|CSeq: 1 INVITE|Contact: <sip:bob@127.0.0.1:5072>|Content-Length: 0|
at 200 peer 1|ACK sip:127.0.0.1:5060 SIP/2.0|Via: SIP/2.0/UDP 127.0.0.1:5071;branch=z9hG4bKk|Max-Forwards: 68|From: "Erin" <sip:erin@other.example>;tag=a
|To: <sip:bob@far.example>;tag=0123456789abcdef-1|Call-ID: c1|CSeq: 7 ACK|Content-Length: 0|
at 300 peer 1|INVITE sip:127.0.0.1:5060 SIP/2.0|Via: SIP/2.0/UDP 127.0.0.1:5071;branch=z9hG4bKr|Max-Forwards: 68|From: "Erin" <sip:erin@other.example>;tag=a
|To: <sip:bob@far.example>;tag=0123456789abcdef-1|Call-ID: c1|CSeq: 8 INVITE|Contact: <sip:erin@127.0.0.1:5071>
|History-Info: <sip:{carol^dave}@home.example?Privacy=history>;index=1|History-Info: <sip:bob@far.example;cause=302>;index=1.1|Content-Length: 0|
~ The caller asks for privacy of the whole history.
at 0 peer 1|INVITE sip:bob@far.example SIP/2.0|Via: SIP/2.0/UDP 127.0.0.1:5071;branch=z9hG4bKa1|Max-Forwards: 68|From: "Erin" <sip:erin@other.example>;tag=a
|To: <sip:bob@far.example>|Call-ID: c1|CSeq: 7 INVITE|Contact: <sip:erin@127.0.0.1:5071>|P-Asserted-Identity: <sip:erin@other.example>
|History-Info: <sip:{carol^dave}@home.example>;index=1|History-Info: <sip:bob@far.example;cause=302>;index=1.1|Privacy: history|Content-Length: 0|
at 100 peer 2|SIP/2.0 200 OK|Via: SIP/2.0/UDP 127.0.0.1:5060;branch=z9hG4bK0123456789abcdef-4|From: "Erin" <sip:erin@other.example>;tag=0123456789abcdef-3
|To: <sip:bob@far.example>;tag=bt|Call-ID: 0123456789abcdef-2|CSeq: 1 INVITE|Contact: <sip:bob@127.0.0.1:5072>|Content-Length: 0|
at 200 peer 1|ACK sip:127.0.0.1:5060 SIP/2.0|Via: SIP/2.0/UDP 127.0.0.1:5071;branch=z9hG4bKk|Max-Forwards: 68|From: "Erin" <sip:erin@other.example>;tag=a
|To: <sip:bob@far.example>;tag=0123456789abcdef-1|Call-ID: c1|CSeq: 7 ACK|Content-Length: 0|
at 300 peer 1|INVITE sip:127.0.0.1:5060 SIP/2.0|Via: SIP/2.0/UDP 127.0.0.1:5071;branch=z9hG4bKr|Max-Forwards: 68|From: "Erin" <sip:erin@other.example>;tag=a
|To: <sip:bob@far.example>;tag=0123456789abcdef-1|Call-ID: c1|CSeq: 8 INVITE|Contact: <sip:erin@127.0.0.1:5071>|History-Info: <sip:{carol^dave}@home.example>;index=1
|History-Info: <sip:bob@far.example;cause=302>;index=1.1|Privacy: history|Content-Length: 0|
~ The caller asks for privacy of the history and of herself.
at 0 peer 1|INVITE sip:bob@far.example SIP/2.0|Via: SIP/2.0/UDP 127.0.0.1:5071;branch=z9hG4bKa1|Max-Forwards: 68
|From: "{Erin^Frank}" <sip:{erin^frank}@other.example>;tag=a|To: <sip:bob@far.example>|Call-ID: c1|CSeq: 7 INVITE|Contact: <sip:{erin^frank}@127.0.0.1:5071>
|P-Asserted-Identity: <sip:{erin^frank}@other.example>|History-Info: "{Carol^Dave}" <sip:{carol^dave}@home.example>;index=1|Privacy: id;history|Content-Length: 0|
~ A stranger copies the branch of a call that asks for privacy, and asks again, cancels and acknowledges.
at 0 peer 1|INVITE sip:bob@far.example SIP/2.0|Via: SIP/2.0/UDP 127.0.0.1:5071;branch=z9hG4bKa1|Max-Forwards: 68
|From: "{Erin^Frank}" <sip:{erin^frank}@other.example>;tag=a|To: <sip:bob@far.example>|Call-ID: c1|CSeq: 7 INVITE|Contact: <sip:{erin^frank}@127.0.0.1:5071>
|P-Asserted-Identity: <sip:{erin^frank}@other.example>|Privacy: id|Content-Length: 0|
at 10 peer 2|INVITE sip:bob@far.example SIP/2.0|Via: SIP/2.0/UDP 127.0.0.1:5071;branch=z9hG4bKa1|Max-Forwards: 68|From: "Eve" <sip:eve@far.example>;tag=e
|To: <sip:bob@far.example>|Call-ID: c9|CSeq: 7 INVITE|Contact: <sip:eve@127.0.0.1:5072>|Content-Length: 0|
at 20 peer 2|CANCEL sip:bob@far.example SIP/2.0|Via: SIP/2.0/UDP 127.0.0.1:5071;branch=z9hG4bKa1|Max-Forwards: 68|From: "Eve" <sip:eve@far.example>;tag=e
|To: <sip:bob@far.example>|Call-ID: c9|CSeq: 7 CANCEL|Contact: <sip:eve@127.0.0.1:5072>|Content-Length: 0|
at 30 peer 2|ACK sip:bob@far.example SIP/2.0|Via: SIP/2.0/UDP 127.0.0.1:5071;branch=z9hG4bKa1|Max-Forwards: 68|From: "Eve" <sip:eve@far.example>;tag=e
|To: <sip:bob@far.example>|Call-ID: c9|CSeq: 7 ACK|Contact: <sip:eve@127.0.0.1:5072>|Content-Length: 0|
at 40 peer 2|INVITE sip:bob@far.example SIP/2.0|Via: SIP/2.0/UDP 127.0.0.1:5071;branch=z9hG4bKa1|Max-Forwards: 68|From: "Eve" <sip:eve@far.example>;tag=e
|To: <sip:bob@far.example>|Call-ID: c9|CSeq: 7 INVITE|Contact: <sip:eve@127.0.0.1:5072>|Content-Length: 0|
~ Bob diverts those whom his record names, and it names both.
# [[communication-diversion.rule]]
# one = ["sip:erin@other.example", "sip:frank@other.example"]
# target = "sip:vm@far.example"
at 0 web|PUT /simservs/2 HTTP/1.1|X-3GPP-Asserted-Identity: "sip:bob@home.example"|Content-Type: application/toml|Content-Length: 123|
x5b5b636f6d6d756e69636174696f6e2d646976657273696f6e2e72756c655d5d0a6f6e65203d205b227369703a6572696e406f746865722e6578616d706c65222c20227369703a6672616e6b406f746\
865722e6578616d706c65225d0a746172676574203d20227369703a766d406661722e6578616d706c65220a
at 0 peer 1|INVITE sip:bob@home.example SIP/2.0|Via: SIP/2.0/UDP 127.0.0.1:5071;branch=z9hG4bKa1|Max-Forwards: 68
|From: "{Erin^Frank}" <sip:{erin^frank}@other.example>;tag=a|To: <sip:bob@home.example>|Call-ID: c1|CSeq: 7 INVITE|Contact: <sip:{erin^frank}@127.0.0.1:5071>
|P-Asserted-Identity: <sip:{erin^frank}@other.example>|Privacy: id|Content-Length: 0|
~ He diverts those of their domain.
# [[communication-diversion.rule]]
# many = "other.example"
# target = "sip:vm@far.example"
at 0 web|PUT /simservs/2 HTTP/1.1|X-3GPP-Asserted-Identity: "sip:bob@home.example"|Content-Type: application/toml|Content-Length: 86|
x5b5b636f6d6d756e69636174696f6e2d646976657273696f6e2e72756c655d5d0a6d616e79203d20226f746865722e6578616d706c65220a746172676574203d20227369703a766d406661722e6578616d706c65220a
at 0 peer 1|INVITE sip:bob@home.example SIP/2.0|Via: SIP/2.0/UDP 127.0.0.1:5071;branch=z9hG4bKa1|Max-Forwards: 68
|From: "{Erin^Frank}" <sip:{erin^frank}@other.example>;tag=a|To: <sip:bob@home.example>|Call-ID: c1|CSeq: 7 INVITE|Contact: <sip:{erin^frank}@127.0.0.1:5071>
|P-Asserted-Identity: <sip:{erin^frank}@other.example>|Privacy: id|Content-Length: 0|
~ He diverts everybody but one who is neither of them.
# [[communication-diversion.rule]]
# many = "*"
# except = ["sip:gina@other.example"]
# target = "sip:vm@far.example"
at 0 web|PUT /simservs/2 HTTP/1.1|X-3GPP-Asserted-Identity: "sip:bob@home.example"|Content-Type: application/toml|Content-Length: 110|
x5b5b636f6d6d756e69636174696f6e2d646976657273696f6e2e72756c655d5d0a6d616e79203d20222a220a657863657074203d205b227369703a67696e61406f746865722e6578616d706c65225d0\
a746172676574203d20227369703a766d406661722e6578616d706c65220a
at 0 peer 1|INVITE sip:bob@home.example SIP/2.0|Via: SIP/2.0/UDP 127.0.0.1:5071;branch=z9hG4bKa1|Max-Forwards: 68
|From: "{Erin^Frank}" <sip:{erin^frank}@other.example>;tag=a|To: <sip:bob@home.example>|Call-ID: c1|CSeq: 7 INVITE|Contact: <sip:{erin^frank}@127.0.0.1:5071>
|P-Asserted-Identity: <sip:{erin^frank}@other.example>|Privacy: id|Content-Length: 0|
~ He bars another, and diverts both of them.
# [[communication-diversion.rule]]
# target = "sip:vm@far.example"
# [[incoming-communication-barring.rule]]
# allow = false
# one = ["sip:gina@other.example"]
at 0 web|PUT /simservs/2 HTTP/1.1|X-3GPP-Asserted-Identity: "sip:bob@home.example"|Content-Type: application/toml|Content-Length: 150|
x5b5b636f6d6d756e69636174696f6e2d646976657273696f6e2e72756c655d5d0a746172676574203d20227369703a766d406661722e6578616d706c65220a5b5b696e636f6d696e672d636f6d6d756\
e69636174696f6e2d62617272696e672e72756c655d5d0a616c6c6f77203d2066616c73650a6f6e65203d205b227369703a67696e61406f746865722e6578616d706c65225d0a
at 0 peer 1|INVITE sip:bob@home.example SIP/2.0|Via: SIP/2.0/UDP 127.0.0.1:5071;branch=z9hG4bKa1|Max-Forwards: 68
|From: "{Erin^Frank}" <sip:{erin^frank}@other.example>;tag=a|To: <sip:bob@home.example>|Call-ID: c1|CSeq: 7 INVITE|Contact: <sip:{erin^frank}@127.0.0.1:5071>
|P-Asserted-Identity: <sip:{erin^frank}@other.example>|Privacy: id|Content-Length: 0|
~ A caller who asks for privacy opens a room, has bob of the other network called into it, and closes it.
at 0 peer 1|INVITE sip:conf@home.example SIP/2.0|Via: SIP/2.0/UDP 127.0.0.1:5071;branch=z9hG4bKf1|Max-Forwards: 68
|From: "{Erin^Frank}" <sip:{erin^frank}@other.example>;tag=a|To: <sip:conf@home.example>|Call-ID: c1|CSeq: 7 INVITE|Contact: <sip:{erin^frank}@127.0.0.1:5071>
|P-Asserted-Identity: <sip:{erin^frank}@other.example>|Privacy: id|Content-Type: application/sdp|Content-Length: 123||v=0|o=- 1 1 IN IP4 127.0.0.1|s=-|c=IN IP4 127.0.0.1
|t=0 0|m=audio 5004 RTP/AVP 8 0|a=rtpmap:8 PCMA/8000|a=sendrecv
at 100 peer 1|ACK sip:room-1@127.0.0.1:5060 SIP/2.0|Via: SIP/2.0/UDP 127.0.0.1:5071;branch=z9hG4bKk1|Max-Forwards: 68
|From: "{Erin^Frank}" <sip:{erin^frank}@other.example>;tag=a|To: <sip:conf@home.example>;tag=0123456789abcdef-1|Call-ID: c1|CSeq: 7 ACK|Content-Length: 0|
at 200 peer 1|REFER sip:room-1@127.0.0.1:5060 SIP/2.0|Via: SIP/2.0/UDP 127.0.0.1:5071;branch=z9hG4bKr1|Max-Forwards: 68
|From: "{Erin^Frank}" <sip:{erin^frank}@other.example>;tag=a|To: <sip:conf@home.example>;tag=0123456789abcdef-1|Call-ID: c1|CSeq: 8 REFER|Refer-To: <sip:bob@far.example>
|Content-Length: 0|
at 210 peer 1|SIP/2.0 200 OK|Via: SIP/2.0/UDP 127.0.0.1:5060;branch=z9hG4bK0123456789abcdef-2|From: <sip:conf@home.example>;tag=0123456789abcdef-1
|To: "{Erin^Frank}" <sip:{erin^frank}@other.example>;tag=a|Call-ID: c1|CSeq: 1 NOTIFY|Contact: <sip:{erin^frank}@127.0.0.1:5071>|Server: {one^another}|Content-Length: 0|
at 300 peer 2|SIP/2.0 180 Ringing|Via: SIP/2.0/UDP 127.0.0.1:5060;branch=z9hG4bK0123456789abcdef-5|From: <sip:room-1@127.0.0.1:5060>;tag=0123456789abcdef-4
|To: <sip:bob@far.example>;tag=bt|Call-ID: 0123456789abcdef-3|CSeq: 1 INVITE|Contact: <sip:bob@127.0.0.1:5072>|Content-Length: 0|
at 400 peer 2|SIP/2.0 200 OK|Via: SIP/2.0/UDP 127.0.0.1:5060;branch=z9hG4bK0123456789abcdef-5|From: <sip:room-1@127.0.0.1:5060>;tag=0123456789abcdef-4
|To: <sip:bob@far.example>;tag=bt|Call-ID: 0123456789abcdef-3|CSeq: 1 INVITE|Contact: <sip:bob@127.0.0.1:5072>|Content-Type: application/sdp|Content-Length: 123||v=0
|o=- 1 1 IN IP4 127.0.0.1|s=-|c=IN IP4 127.0.0.1|t=0 0|m=audio 5004 RTP/AVP 8 0|a=rtpmap:8 PCMA/8000|a=sendrecv
at 410 peer 1|SIP/2.0 200 OK|Via: SIP/2.0/UDP 127.0.0.1:5060;branch=z9hG4bK0123456789abcdef-7|From: <sip:conf@home.example>;tag=0123456789abcdef-1
|To: "{Erin^Frank}" <sip:{erin^frank}@other.example>;tag=a|Call-ID: c1|CSeq: 2 NOTIFY|Contact: <sip:{erin^frank}@127.0.0.1:5071>|Server: {one^another}|Content-Length: 0|
at 500 peer 1|BYE sip:room-1@127.0.0.1:5060 SIP/2.0|Via: SIP/2.0/UDP 127.0.0.1:5071;branch=z9hG4bKy1|Max-Forwards: 68
|From: "{Erin^Frank}" <sip:{erin^frank}@other.example>;tag=a|To: <sip:conf@home.example>;tag=0123456789abcdef-1|Call-ID: c1|CSeq: 9 BYE|User-Agent: {one^another}
|Content-Length: 0|
at 510 peer 2|SIP/2.0 200 OK|Via: SIP/2.0/UDP 127.0.0.1:5060;branch=z9hG4bK0123456789abcdef-8|From: <sip:room-1@127.0.0.1:5060>;tag=0123456789abcdef-4
|To: <sip:bob@far.example>;tag=bt|Call-ID: 0123456789abcdef-3|CSeq: 2 BYE|Content-Length: 0|
~ She talks with bob, opens a room, and takes his leg over into it; he hangs up.
at 0 peer 1|INVITE sip:bob@far.example SIP/2.0|Via: SIP/2.0/UDP 127.0.0.1:5071;branch=z9hG4bKa1|Max-Forwards: 68
|From: "{Erin^Frank}" <sip:{erin^frank}@other.example>;tag=a|To: <sip:bob@far.example>|Call-ID: c1|CSeq: 7 INVITE|Contact: <sip:{erin^frank}@127.0.0.1:5071>
|P-Asserted-Identity: <sip:{erin^frank}@other.example>|Privacy: id|Content-Length: 0|
at 100 peer 2|SIP/2.0 200 OK|Via: SIP/2.0/UDP 127.0.0.1:5060;branch=z9hG4bK0123456789abcdef-4|From: "Anonymous" <sip:anonymous@anonymous.invalid>;tag=0123456789abcdef-3
|To: <sip:bob@far.example>;tag=bt|Call-ID: 0123456789abcdef-2|CSeq: 1 INVITE|Contact: <sip:bob@127.0.0.1:5072>|Content-Length: 0|
at 200 peer 1|ACK sip:127.0.0.1:5060 SIP/2.0|Via: SIP/2.0/UDP 127.0.0.1:5071;branch=z9hG4bKk1|Max-Forwards: 68|From: "{Erin^Frank}" <sip:{erin^frank}@other.example>;tag=a
|To: <sip:bob@far.example>;tag=0123456789abcdef-1|Call-ID: c1|CSeq: 7 ACK|Content-Length: 0|
at 1000 peer 1|INVITE sip:conf@home.example SIP/2.0|Via: SIP/2.0/UDP 127.0.0.1:5071;branch=z9hG4bKf1|Max-Forwards: 68
|From: "{Erin^Frank}" <sip:{erin^frank}@other.example>;tag=b|To: <sip:conf@home.example>|Call-ID: c2|CSeq: 7 INVITE|Contact: <sip:{erin^frank}@127.0.0.1:5071>
|P-Asserted-Identity: <sip:{erin^frank}@other.example>|Privacy: id|Content-Type: application/sdp|Content-Length: 123||v=0|o=- 1 1 IN IP4 127.0.0.1|s=-|c=IN IP4 127.0.0.1
|t=0 0|m=audio 5004 RTP/AVP 8 0|a=rtpmap:8 PCMA/8000|a=sendrecv
at 1100 peer 1|ACK sip:room-1@127.0.0.1:5060 SIP/2.0|Via: SIP/2.0/UDP 127.0.0.1:5071;branch=z9hG4bKk2|Max-Forwards: 68
|From: "{Erin^Frank}" <sip:{erin^frank}@other.example>;tag=b|To: <sip:conf@home.example>;tag=0123456789abcdef-6|Call-ID: c2|CSeq: 7 ACK|Content-Length: 0|
at 2000 peer 1|REFER sip:room-1@127.0.0.1:5060 SIP/2.0|Via: SIP/2.0/UDP 127.0.0.1:5071;branch=z9hG4bKr1|Max-Forwards: 68
|From: "{Erin^Frank}" <sip:{erin^frank}@other.example>;tag=b|To: <sip:conf@home.example>;tag=0123456789abcdef-6|Call-ID: c2|CSeq: 8 REFER
|Refer-To: <sip:bob@far.example?Replaces=c1%3Bto-tag%3D0123456789abcdef-1%3Bfrom-tag%3Da>|Content-Length: 0|
at 2010 peer 1|SIP/2.0 200 OK|Via: SIP/2.0/UDP 127.0.0.1:5060;branch=z9hG4bK0123456789abcdef-7|From: <sip:conf@home.example>;tag=0123456789abcdef-6
|To: "Erin" <sip:erin@other.example>;tag=b|Call-ID: c2|CSeq: 1 NOTIFY|Content-Length: 0|
at 2020 peer 1|SIP/2.0 200 OK|Via: SIP/2.0/UDP 127.0.0.1:5060;branch=z9hG4bK0123456789abcdef-9|From: <sip:bob@far.example>;tag=0123456789abcdef-1
|To: "Erin" <sip:erin@other.example>;tag=a|Call-ID: c1|CSeq: 1 BYE|Content-Length: 0|
at 2100 peer 2|SIP/2.0 200 OK|Via: SIP/2.0/UDP 127.0.0.1:5060;branch=z9hG4bK0123456789abcdef-8|From: "Anonymous" <sip:anonymous@anonymous.invalid>;tag=0123456789abcdef-3
|To: <sip:bob@far.example>;tag=bt|Call-ID: 0123456789abcdef-2|CSeq: 2 INVITE|Contact: <sip:bob@127.0.0.1:5072>|Content-Type: application/sdp|Content-Length: 123||v=0
|o=- 1 1 IN IP4 127.0.0.1|s=-|c=IN IP4 127.0.0.1|t=0 0|m=audio 5004 RTP/AVP 8 0|a=rtpmap:8 PCMA/8000|a=sendrecv
at 2110 peer 1|SIP/2.0 200 OK|Via: SIP/2.0/UDP 127.0.0.1:5060;branch=z9hG4bK0123456789abcdef-11|From: <sip:conf@home.example>;tag=0123456789abcdef-6
|To: "Erin" <sip:erin@other.example>;tag=b|Call-ID: c2|CSeq: 2 NOTIFY|Content-Length: 0|
at 3000 peer 2|BYE sip:127.0.0.1:5060 SIP/2.0|Via: SIP/2.0/UDP 127.0.0.1:5072;branch=z9hG4bKby|Max-Forwards: 68|From: <sip:bob@far.example>;tag=bt
|To: "Anonymous" <sip:anonymous@anonymous.invalid>;tag=0123456789abcdef-3|Call-ID: 0123456789abcdef-2|CSeq: 1 BYE|Content-Length: 0|
~ Alice has bob in her room, and takes over into it a caller who asked for privacy; then she closes it.
at 0 peer 1|INVITE sip:conf@home.example SIP/2.0|Via: SIP/2.0/UDP 127.0.0.1:5071;branch=z9hG4bKf0|Max-Forwards: 68|From: "Alice" <sip:alice@home.example>;tag=z
|To: <sip:conf@home.example>|Call-ID: c0|CSeq: 7 INVITE|Contact: <sip:alice@127.0.0.1:5071>|P-Asserted-Identity: <sip:alice@home.example>|Content-Type: application/sdp
|Content-Length: 123||v=0|o=- 1 1 IN IP4 127.0.0.1|s=-|c=IN IP4 127.0.0.1|t=0 0|m=audio 5004 RTP/AVP 8 0|a=rtpmap:8 PCMA/8000|a=sendrecv
at 10 peer 1|ACK sip:room-1@127.0.0.1:5060 SIP/2.0|Via: SIP/2.0/UDP 127.0.0.1:5071;branch=z9hG4bKk0|Max-Forwards: 68|From: "Alice" <sip:alice@home.example>;tag=z
|To: <sip:conf@home.example>;tag=0123456789abcdef-1|Call-ID: c0|CSeq: 7 ACK|Content-Length: 0|
at 20 peer 1|REFER sip:room-1@127.0.0.1:5060 SIP/2.0|Via: SIP/2.0/UDP 127.0.0.1:5071;branch=z9hG4bKr0|Max-Forwards: 68|From: "Alice" <sip:alice@home.example>;tag=z
|To: <sip:conf@home.example>;tag=0123456789abcdef-1|Call-ID: c0|CSeq: 8 REFER|Refer-To: <sip:bob@far.example>|Content-Length: 0|
at 30 peer 1|SIP/2.0 200 OK|Via: SIP/2.0/UDP 127.0.0.1:5060;branch=z9hG4bK0123456789abcdef-2|From: <sip:conf@home.example>;tag=0123456789abcdef-1
|To: "Alice" <sip:alice@home.example>;tag=z|Call-ID: c0|CSeq: 1 NOTIFY|Content-Length: 0|
at 40 peer 2|SIP/2.0 200 OK|Via: SIP/2.0/UDP 127.0.0.1:5060;branch=z9hG4bK0123456789abcdef-5|From: <sip:room-1@127.0.0.1:5060>;tag=0123456789abcdef-4
|To: <sip:bob@far.example>;tag=bt|Call-ID: 0123456789abcdef-3|CSeq: 1 INVITE|Contact: <sip:bob@127.0.0.1:5072>|Content-Type: application/sdp|Content-Length: 123||v=0
|o=- 1 1 IN IP4 127.0.0.1|s=-|c=IN IP4 127.0.0.1|t=0 0|m=audio 5004 RTP/AVP 8 0|a=rtpmap:8 PCMA/8000|a=sendrecv
at 50 peer 1|SIP/2.0 200 OK|Via: SIP/2.0/UDP 127.0.0.1:5060;branch=z9hG4bK0123456789abcdef-7|From: <sip:conf@home.example>;tag=0123456789abcdef-1
|To: "Alice" <sip:alice@home.example>;tag=z|Call-ID: c0|CSeq: 2 NOTIFY|Content-Length: 0|
at 1000 peer 1|INVITE sip:alice@home.example SIP/2.0|Via: SIP/2.0/UDP 127.0.0.1:5071;branch=z9hG4bKa1|Max-Forwards: 68
|From: "{Erin^Frank}" <sip:{erin^frank}@other.example>;tag=a|To: <sip:alice@home.example>|Call-ID: c1|CSeq: 7 INVITE|Contact: <sip:{erin^frank}@127.0.0.1:5071>
|P-Asserted-Identity: <sip:{erin^frank}@other.example>|Privacy: id|Content-Length: 0|
at 1100 peer 1|SIP/2.0 200 OK|Via: SIP/2.0/UDP 127.0.0.1:5060;branch=z9hG4bK0123456789abcdef-11
|From: "Anonymous" <sip:anonymous@anonymous.invalid>;tag=0123456789abcdef-10|To: <sip:alice@home.example>;tag=at|Call-ID: 0123456789abcdef-9|CSeq: 1 INVITE
|Contact: <sip:alice@127.0.0.1:5071>|Content-Length: 0|
at 1200 peer 1|ACK sip:127.0.0.1:5060 SIP/2.0|Via: SIP/2.0/UDP 127.0.0.1:5071;branch=z9hG4bKk1|Max-Forwards: 68
|From: "{Erin^Frank}" <sip:{erin^frank}@other.example>;tag=a|To: <sip:alice@home.example>;tag=0123456789abcdef-8|Call-ID: c1|CSeq: 7 ACK|Content-Length: 0|
at 2000 peer 1|REFER sip:room-1@127.0.0.1:5060 SIP/2.0|Via: SIP/2.0/UDP 127.0.0.1:5071;branch=z9hG4bKr1|Max-Forwards: 68|From: "Alice" <sip:alice@home.example>;tag=z
|To: <sip:conf@home.example>;tag=0123456789abcdef-1|Call-ID: c0|CSeq: 9 REFER
|Refer-To: <sip:erin@other.example?Replaces=0123456789abcdef-9%3Bto-tag%3D0123456789abcdef-10%3Bfrom-tag%3Dat>|Content-Length: 0|
at 2010 peer 1|SIP/2.0 200 OK|Via: SIP/2.0/UDP 127.0.0.1:5060;branch=z9hG4bK0123456789abcdef-13|From: <sip:conf@home.example>;tag=0123456789abcdef-1
|To: "Alice" <sip:alice@home.example>;tag=z|Call-ID: c0|CSeq: 3 NOTIFY|Content-Length: 0|
at 2020 peer 1|SIP/2.0 200 OK|Via: SIP/2.0/UDP 127.0.0.1:5060;branch=z9hG4bK0123456789abcdef-15
|From: "Anonymous" <sip:anonymous@anonymous.invalid>;tag=0123456789abcdef-10|To: <sip:alice@home.example>;tag=at|Call-ID: 0123456789abcdef-9|CSeq: 2 BYE|Content-Length: 0
|
at 2100 peer 1|SIP/2.0 200 OK|Via: SIP/2.0/UDP 127.0.0.1:5060;branch=z9hG4bK0123456789abcdef-14|From: <sip:alice@home.example>;tag=0123456789abcdef-8
|To: "{Erin^Frank}" <sip:{erin^frank}@other.example>;tag=a|Call-ID: c1|CSeq: 1 INVITE|Contact: <sip:{erin^frank}@127.0.0.1:5071>|Server: {one^another}
|Content-Type: application/sdp|Content-Length: 123||v=0|o=- 1 1 IN IP4 127.0.0.1|s=-|c=IN IP4 127.0.0.1|t=0 0|m=audio 5004 RTP/AVP 8 0|a=rtpmap:8 PCMA/8000|a=sendrecv
at 2110 peer 1|SIP/2.0 200 OK|Via: SIP/2.0/UDP 127.0.0.1:5060;branch=z9hG4bK0123456789abcdef-17|From: <sip:conf@home.example>;tag=0123456789abcdef-1
|To: "Alice" <sip:alice@home.example>;tag=z|Call-ID: c0|CSeq: 4 NOTIFY|Content-Length: 0|
at 3000 peer 1|BYE sip:room-1@127.0.0.1:5060 SIP/2.0|Via: SIP/2.0/UDP 127.0.0.1:5071;branch=z9hG4bKy0|Max-Forwards: 68|From: "Alice" <sip:alice@home.example>;tag=z
|To: <sip:conf@home.example>;tag=0123456789abcdef-1|Call-ID: c0|CSeq: 10 BYE|Content-Length: 0|
"#;

/// They differ in a place that is not private, or in a response.
const APART: &[u8] = br#"~ Her INVITE has other hops left.
at 0 peer 1|INVITE sip:bob@far.example SIP/2.0|Via: SIP/2.0/UDP 127.0.0.1:5071;branch=z9hG4bKa1|Max-Forwards: {68^67}
|From: "{Erin^Frank}" <sip:{erin^frank}@other.example>;tag=a|To: <sip:bob@far.example>|Call-ID: c1|CSeq: 7 INVITE|Contact: <sip:{erin^frank}@127.0.0.1:5071>
|P-Asserted-Identity: <sip:{erin^frank}@other.example>|Privacy: id|Content-Length: 0|
~ Her ACK has another Accept, which is no line of a person.
at 0 peer 1|INVITE sip:bob@far.example SIP/2.0|Via: SIP/2.0/UDP 127.0.0.1:5071;branch=z9hG4bKa1|Max-Forwards: 68
|From: "{Erin^Frank}" <sip:{erin^frank}@other.example>;tag=a|To: <sip:bob@far.example>|Call-ID: c1|CSeq: 7 INVITE|Contact: <sip:{erin^frank}@127.0.0.1:5071>
|P-Asserted-Identity: <sip:{erin^frank}@other.example>|Privacy: id|Content-Length: 0|
at 200 peer 2|SIP/2.0 200 OK|Via: SIP/2.0/UDP 127.0.0.1:5060;branch=z9hG4bK0123456789abcdef-4|From: "Anonymous" <sip:anonymous@anonymous.invalid>;tag=0123456789abcdef-3
|To: <sip:bob@far.example>;tag=bt|Call-ID: 0123456789abcdef-2|CSeq: 1 INVITE|Contact: <sip:bob@127.0.0.1:5072>|Content-Length: 0|
at 300 peer 1|ACK sip:127.0.0.1:5060 SIP/2.0|Via: SIP/2.0/UDP 127.0.0.1:5071;branch=z9hG4bKk|Max-Forwards: 68|From: "{Erin^Frank}" <sip:{erin^frank}@other.example>;tag=a
|To: <sip:bob@far.example>;tag=0123456789abcdef-1|Call-ID: c1|CSeq: 7 ACK|Accept: {one^another}|Content-Length: 0|
~ That ACK belongs to the second call, and its Subject is shown.
at 0 peer 1|INVITE sip:bob@far.example SIP/2.0|Via: SIP/2.0/UDP 127.0.0.1:5071;branch=z9hG4bKa1|Max-Forwards: 68|From: "Erin" <sip:erin@other.example>;tag=a
|To: <sip:bob@far.example>|Call-ID: c1|CSeq: 7 INVITE|Contact: <sip:erin@127.0.0.1:5071>|P-Asserted-Identity: <sip:erin@other.example>|Privacy: id|Content-Length: 0|
at 0 peer 1|INVITE sip:bob@far.example SIP/2.0|Via: SIP/2.0/UDP 127.0.0.1:5071;branch=z9hG4bKb1|Max-Forwards: 68|From: "Erin" <sip:erin@other.example>;tag=b
|To: <sip:bob@far.example>|Call-ID: c2|CSeq: 7 INVITE|Contact: <sip:erin@127.0.0.1:5071>|P-Asserted-Identity: <sip:erin@other.example>|Content-Length: 0|
at 10 peer 2|SIP/2.0 200 OK|Via: SIP/2.0/UDP 127.0.0.1:5060;branch=z9hG4bK0123456789abcdef-8|From: "Erin" <sip:erin@other.example>;tag=0123456789abcdef-7
|To: <sip:bob@far.example>;tag=bt|Call-ID: 0123456789abcdef-6|CSeq: 1 INVITE|Contact: <sip:bob@127.0.0.1:5072>|Content-Length: 0|
at 20 peer 1|ACK sip:127.0.0.1:5060 SIP/2.0|Via: SIP/2.0/UDP 127.0.0.1:5071;branch=z9hG4bKa1|Max-Forwards: 68|From: "Erin" <sip:erin@other.example>;tag=b
|To: <sip:bob@far.example>;tag=0123456789abcdef-5|Call-ID: c2|CSeq: 7 ACK|Subject: {one^another}|Content-Length: 0|
~ The second call with that branch is one of its own, which asks for no privacy.
at 0 peer 1|INVITE sip:bob@far.example SIP/2.0|Via: SIP/2.0/UDP 127.0.0.1:5071;branch=z9hG4bKa1|Max-Forwards: 68|From: "Erin" <sip:erin@other.example>;tag=a
|To: <sip:bob@far.example>|Call-ID: c1|CSeq: 7 INVITE|Contact: <sip:erin@127.0.0.1:5071>|P-Asserted-Identity: <sip:erin@other.example>|Privacy: id|Content-Length: 0|
at 10 peer 2|SIP/2.0 486 Busy Here|Via: SIP/2.0/UDP 127.0.0.1:5060;branch=z9hG4bK0123456789abcdef-4
|From: "Anonymous" <sip:anonymous@anonymous.invalid>;tag=0123456789abcdef-3|To: <sip:bob@far.example>;tag=bt|Call-ID: 0123456789abcdef-2|CSeq: 1 INVITE|Content-Length: 0|
at 20 peer 1|ACK sip:bob@far.example SIP/2.0|Via: SIP/2.0/UDP 127.0.0.1:5071;branch=z9hG4bKa1|Max-Forwards: 68|From: "Erin" <sip:erin@other.example>;tag=a
|To: <sip:bob@far.example>;tag=0123456789abcdef-1|Call-ID: c1|CSeq: 7 ACK|Content-Length: 0|
at 40000 peer 1|INVITE sip:bob@far.example SIP/2.0|Via: SIP/2.0/UDP 127.0.0.1:5071;branch=z9hG4bKa1|Max-Forwards: 68
|From: "{Erin^Frank}" <sip:{erin^frank}@other.example>;tag=b|To: <sip:bob@far.example>|Call-ID: c2|CSeq: 7 INVITE|Contact: <sip:erin@127.0.0.1:5071>
|P-Asserted-Identity: <sip:erin@other.example>|Content-Length: 0|
~ It is not asked where the core asks for those of the terminating user alone.
# [originating-identity-presentation-restriction]
# mode = "permanent"
at 0 web|PUT /simservs/1 HTTP/1.1|X-3GPP-Asserted-Identity: "sip:alice@home.example"|Content-Type: application/toml|Content-Length: 67|
x5b6f726967696e6174696e672d6964656e746974792d70726573656e746174696f6e2d7265737472696374696f6e5d0a6d6f6465203d20227065726d616e656e74220a
at 0 peer 1|INVITE sip:bob@far.example SIP/2.0|Via: SIP/2.0/UDP 127.0.0.1:5071;branch=z9hG4bKa1|Max-Forwards: 68
|From: "{Alice^A. L.}" <{sip:alice@home.example^tel:+4930111}>;tag=a|To: <sip:bob@far.example>|Call-ID: c1|CSeq: 7 INVITE|Contact: <sip:{alice^al}@127.0.0.1:5071>
|P-Asserted-Identity: <{sip:alice@home.example^tel:+4930111}>|P-Served-User: <sip:bob@home.example>;sescase=term|Content-Length: 0|
~ A caller without such a record who asks for nothing is shown.
at 0 peer 1|INVITE sip:bob@far.example SIP/2.0|Via: SIP/2.0/UDP 127.0.0.1:5071;branch=z9hG4bKa1|Max-Forwards: 68
|From: "{Erin^Frank}" <sip:{erin^frank}@other.example>;tag=a|To: <sip:bob@far.example>|Call-ID: c1|CSeq: 7 INVITE|Contact: <sip:erin@127.0.0.1:5071>
|P-Asserted-Identity: <sip:erin@other.example>|Content-Length: 0|
~ Without it his lines are shown.
at 0 peer 2|INVITE sip:bob@home.example SIP/2.0|Via: SIP/2.0/UDP 127.0.0.1:5072;branch=z9hG4bKa1|Max-Forwards: 68|From: "Erin" <sip:erin@other.example>;tag=a
|To: <sip:bob@home.example>|Call-ID: c1|CSeq: 7 INVITE|Contact: <sip:erin@127.0.0.1:5072>|Content-Length: 0|
at 100 peer 1|SIP/2.0 181 Call Is Being Forwarded|Via: SIP/2.0/UDP 127.0.0.1:5060;branch=z9hG4bK0123456789abcdef-4
|From: "Erin" <sip:erin@other.example>;tag=0123456789abcdef-3|To: "{Bob^Robert}" <sip:{bob^robert}@home.example>;tag=b1|Call-ID: 0123456789abcdef-2|CSeq: 1 INVITE
|Contact: <sip:{bob1^bob2}@127.0.0.1:5071>|P-Asserted-Identity: "{Bob^Robert}" <sip:bob@home.example>|Server: {one^another}|Content-Length: 0|
at 200 peer 1|SIP/2.0 200 OK|Via: SIP/2.0/UDP 127.0.0.1:5060;branch=z9hG4bK0123456789abcdef-4|From: "Erin" <sip:erin@other.example>;tag=0123456789abcdef-3
|To: "{Bob^Robert}" <sip:{bob^robert}@home.example>;tag=b1|Call-ID: 0123456789abcdef-2|CSeq: 1 INVITE|Contact: <sip:{bob1^bob2}@127.0.0.1:5071>
|P-Asserted-Identity: "{Bob^Robert}" <sip:bob@home.example>|Server: {one^another}|Content-Length: 0|
at 300 peer 2|ACK sip:127.0.0.1:5060 SIP/2.0|Via: SIP/2.0/UDP 127.0.0.1:5072;branch=z9hG4bKk|Max-Forwards: 68|From: "Erin" <sip:erin@other.example>;tag=a
|To: <sip:bob@home.example>;tag=0123456789abcdef-1|Call-ID: c1|CSeq: 7 ACK|Content-Length: 0|
at 400 peer 1|BYE sip:127.0.0.1:5060 SIP/2.0|Via: SIP/2.0/UDP 127.0.0.1:5071;branch=z9hG4bKy|Max-Forwards: 68|From: "{Bob^Robert}" <sip:{bob^robert}@home.example>;tag=b1
|To: "Erin" <sip:erin@other.example>;tag=0123456789abcdef-3|Call-ID: 0123456789abcdef-2|CSeq: 1 BYE|User-Agent: {one^another}
|P-Asserted-Identity: <sip:{bob^robert}@home.example>|Content-Length: 0|
~ Where such a callee sends the call on, his Contact says where, and is no secret.
# [communication-diversion]
# deflection = true
# [terminating-identity-presentation-restriction]
# mode = "permanent"
at 0 web|PUT /simservs/2 HTTP/1.1|X-3GPP-Asserted-Identity: "sip:bob@home.example"|Content-Type: application/toml|Content-Length: 111|
x5b636f6d6d756e69636174696f6e2d646976657273696f6e5d0a6465666c656374696f6e203d20747275650a5b7465726d696e6174696e672d6964656e746974792d70726573656e746174696f6e2d7\
265737472696374696f6e5d0a6d6f6465203d20227065726d616e656e74220a
at 0 peer 2|INVITE sip:bob@home.example SIP/2.0|Via: SIP/2.0/UDP 127.0.0.1:5072;branch=z9hG4bKa1|Max-Forwards: 68|From: "Erin" <sip:erin@other.example>;tag=a
|To: <sip:bob@home.example>|Call-ID: c1|CSeq: 7 INVITE|Contact: <sip:erin@127.0.0.1:5072>|Content-Length: 0|
at 100 peer 1|SIP/2.0 302 Moved|Via: SIP/2.0/UDP 127.0.0.1:5060;branch=z9hG4bK0123456789abcdef-4|From: "Erin" <sip:erin@other.example>;tag=0123456789abcdef-3
|To: "{Bob^Robert}" <sip:{bob^robert}@home.example>;tag=b1|Call-ID: 0123456789abcdef-2|CSeq: 1 INVITE|Contact: <sip:{vm^other}@far.example>|Content-Length: 0|
~ An entry that nobody marked is shown.
at 0 peer 1|INVITE sip:bob@far.example SIP/2.0|Via: SIP/2.0/UDP 127.0.0.1:5071;branch=z9hG4bKa1|Max-Forwards: 68|From: "Erin" <sip:erin@other.example>;tag=a
|To: <sip:bob@far.example>|Call-ID: c1|CSeq: 7 INVITE|Contact: <sip:erin@127.0.0.1:5071>|P-Asserted-Identity: <sip:erin@other.example>
|History-Info: <sip:{carol^dave}@home.example>;index=1|History-Info: <sip:bob@far.example;cause=302>;index=1.1|Content-Length: 0|
at 100 peer 2|SIP/2.0 200 OK|Via: SIP/2.0/UDP 127.0.0.1:5060;branch=z9hG4bK0123456789abcdef-4|From: "Erin" <sip:erin@other.example>;tag=0123456789abcdef-3
|To: <sip:bob@far.example>;tag=bt|Call-ID: 0123456789abcdef-2|CSeq: 1 INVITE|Contact: <sip:bob@127.0.0.1:5072>|Content-Length: 0|
at 200 peer 1|ACK sip:127.0.0.1:5060 SIP/2.0|Via: SIP/2.0/UDP 127.0.0.1:5071;branch=z9hG4bKk|Max-Forwards: 68|From: "Erin" <sip:erin@other.example>;tag=a
|To: <sip:bob@far.example>;tag=0123456789abcdef-1|Call-ID: c1|CSeq: 7 ACK|Content-Length: 0|
at 300 peer 1|INVITE sip:127.0.0.1:5060 SIP/2.0|Via: SIP/2.0/UDP 127.0.0.1:5071;branch=z9hG4bKr|Max-Forwards: 68|From: "Erin" <sip:erin@other.example>;tag=a
|To: <sip:bob@far.example>;tag=0123456789abcdef-1|Call-ID: c1|CSeq: 8 INVITE|Contact: <sip:erin@127.0.0.1:5071>|History-Info: <sip:{carol^dave}@home.example>;index=1
|History-Info: <sip:bob@far.example;cause=302>;index=1.1|Content-Length: 0|
~ What the stranger says of itself it is told again.
at 0 peer 1|INVITE sip:bob@far.example SIP/2.0|Via: SIP/2.0/UDP 127.0.0.1:5071;branch=z9hG4bKa1|Max-Forwards: 68
|From: "{Erin^Frank}" <sip:{erin^frank}@other.example>;tag=a|To: <sip:bob@far.example>|Call-ID: c1|CSeq: 7 INVITE|Contact: <sip:{erin^frank}@127.0.0.1:5071>
|P-Asserted-Identity: <sip:{erin^frank}@other.example>|Privacy: id|Content-Length: 0|
at 10 peer 2|INVITE sip:bob@far.example SIP/2.0|Via: SIP/2.0/UDP 127.0.0.1:5071;branch=z9hG4bKa1|Max-Forwards: 68|From: "{Eve^Mallory}" <sip:eve@far.example>;tag=e
|To: <sip:bob@far.example>|Call-ID: c9|CSeq: 7 INVITE|Contact: <sip:eve@127.0.0.1:5072>|Content-Length: 0|
at 20 peer 2|CANCEL sip:bob@far.example SIP/2.0|Via: SIP/2.0/UDP 127.0.0.1:5071;branch=z9hG4bKa1|Max-Forwards: 68|From: "{Eve^Mallory}" <sip:eve@far.example>;tag=e
|To: <sip:bob@far.example>|Call-ID: c9|CSeq: 7 CANCEL|Contact: <sip:eve@127.0.0.1:5072>|Content-Length: 0|
at 30 peer 2|ACK sip:bob@far.example SIP/2.0|Via: SIP/2.0/UDP 127.0.0.1:5071;branch=z9hG4bKa1|Max-Forwards: 68|From: "{Eve^Mallory}" <sip:eve@far.example>;tag=e
|To: <sip:bob@far.example>|Call-ID: c9|CSeq: 7 ACK|Contact: <sip:eve@127.0.0.1:5072>|Content-Length: 0|
at 40 peer 2|INVITE sip:bob@far.example SIP/2.0|Via: SIP/2.0/UDP 127.0.0.1:5071;branch=z9hG4bKa1|Max-Forwards: 68|From: "{Eve^Mallory}" <sip:eve@far.example>;tag=e
|To: <sip:bob@far.example>|Call-ID: c9|CSeq: 7 INVITE|Contact: <sip:eve@127.0.0.1:5072>|Content-Length: 0|
~ An INVITE of a peer that is not trusted has no secret.
at 0 peer 2|INVITE sip:bob@far.example SIP/2.0|Via: SIP/2.0/UDP 127.0.0.1:5072;branch=z9hG4bKa1|Max-Forwards: 68
|From: "{Erin^Frank}" <sip:{erin^frank}@other.example>;tag=a|To: <sip:bob@far.example>|Call-ID: c1|CSeq: 7 INVITE|Contact: <sip:erin@127.0.0.1:5072>
|P-Asserted-Identity: <sip:{erin^frank}@other.example>|Privacy: id|Content-Length: 0|
~ He diverts one of them alone.
# [[communication-diversion.rule]]
# one = ["sip:frank@other.example"]
# target = "sip:vm@far.example"
at 0 web|PUT /simservs/2 HTTP/1.1|X-3GPP-Asserted-Identity: "sip:bob@home.example"|Content-Type: application/toml|Content-Length: 97|
x5b5b636f6d6d756e69636174696f6e2d646976657273696f6e2e72756c655d5d0a6f6e65203d205b227369703a6672616e6b406f746865722e6578616d706c65225d0a746172676574203d202273697\
03a766d406661722e6578616d706c65220a
at 0 peer 1|INVITE sip:bob@home.example SIP/2.0|Via: SIP/2.0/UDP 127.0.0.1:5071;branch=z9hG4bKa1|Max-Forwards: 68
|From: "{Erin^Frank}" <sip:{erin^frank}@other.example>;tag=a|To: <sip:bob@home.example>|Call-ID: c1|CSeq: 7 INVITE|Contact: <sip:{erin^frank}@127.0.0.1:5071>
|P-Asserted-Identity: <sip:{erin^frank}@other.example>|Privacy: id|Content-Length: 0|
~ He diverts everybody but one of them.
# [[communication-diversion.rule]]
# many = "*"
# except = ["sip:frank@other.example"]
# target = "sip:vm@far.example"
at 0 web|PUT /simservs/2 HTTP/1.1|X-3GPP-Asserted-Identity: "sip:bob@home.example"|Content-Type: application/toml|Content-Length: 111|
x5b5b636f6d6d756e69636174696f6e2d646976657273696f6e2e72756c655d5d0a6d616e79203d20222a220a657863657074203d205b227369703a6672616e6b406f746865722e6578616d706c65225\
d0a746172676574203d20227369703a766d406661722e6578616d706c65220a
at 0 peer 1|INVITE sip:bob@home.example SIP/2.0|Via: SIP/2.0/UDP 127.0.0.1:5071;branch=z9hG4bKa1|Max-Forwards: 68
|From: "{Erin^Frank}" <sip:{erin^frank}@other.example>;tag=a|To: <sip:bob@home.example>|Call-ID: c1|CSeq: 7 INVITE|Contact: <sip:{erin^frank}@127.0.0.1:5071>
|P-Asserted-Identity: <sip:{erin^frank}@other.example>|Privacy: id|Content-Length: 0|
~ He bars one of them alone.
# [[communication-diversion.rule]]
# target = "sip:vm@far.example"
# [[incoming-communication-barring.rule]]
# allow = false
# one = ["sip:frank@other.example"]
at 0 web|PUT /simservs/2 HTTP/1.1|X-3GPP-Asserted-Identity: "sip:bob@home.example"|Content-Type: application/toml|Content-Length: 151|
x5b5b636f6d6d756e69636174696f6e2d646976657273696f6e2e72756c655d5d0a746172676574203d20227369703a766d406661722e6578616d706c65220a5b5b696e636f6d696e672d636f6d6d756\
e69636174696f6e2d62617272696e672e72756c655d5d0a616c6c6f77203d2066616c73650a6f6e65203d205b227369703a6672616e6b406f746865722e6578616d706c65225d0a
at 0 peer 1|INVITE sip:bob@home.example SIP/2.0|Via: SIP/2.0/UDP 127.0.0.1:5071;branch=z9hG4bKa1|Max-Forwards: 68
|From: "{Erin^Frank}" <sip:{erin^frank}@other.example>;tag=a|To: <sip:bob@home.example>|Call-ID: c1|CSeq: 7 INVITE|Contact: <sip:{erin^frank}@127.0.0.1:5071>
|P-Asserted-Identity: <sip:{erin^frank}@other.example>|Privacy: id|Content-Length: 0|
~ Whom she refers into her room is no secret of hers.
at 0 peer 1|INVITE sip:conf@home.example SIP/2.0|Via: SIP/2.0/UDP 127.0.0.1:5071;branch=z9hG4bKf1|Max-Forwards: 68
|From: "{Erin^Frank}" <sip:{erin^frank}@other.example>;tag=a|To: <sip:conf@home.example>|Call-ID: c1|CSeq: 7 INVITE|Contact: <sip:{erin^frank}@127.0.0.1:5071>
|P-Asserted-Identity: <sip:{erin^frank}@other.example>|Privacy: id|Content-Type: application/sdp|Content-Length: 123||v=0|o=- 1 1 IN IP4 127.0.0.1|s=-|c=IN IP4 127.0.0.1
|t=0 0|m=audio 5004 RTP/AVP 8 0|a=rtpmap:8 PCMA/8000|a=sendrecv
at 100 peer 1|ACK sip:room-1@127.0.0.1:5060 SIP/2.0|Via: SIP/2.0/UDP 127.0.0.1:5071;branch=z9hG4bKk1|Max-Forwards: 68
|From: "{Erin^Frank}" <sip:{erin^frank}@other.example>;tag=a|To: <sip:conf@home.example>;tag=0123456789abcdef-1|Call-ID: c1|CSeq: 7 ACK|Content-Length: 0|
at 200 peer 1|REFER sip:room-1@127.0.0.1:5060 SIP/2.0|Via: SIP/2.0/UDP 127.0.0.1:5071;branch=z9hG4bKr1|Max-Forwards: 68
|From: "{Erin^Frank}" <sip:{erin^frank}@other.example>;tag=a|To: <sip:conf@home.example>;tag=0123456789abcdef-1|Call-ID: c1|CSeq: 8 REFER
|Refer-To: <sip:{bob^carol}@far.example>|Content-Length: 0|
"#;

/// They differ in private places only, and in how the configuration names the hidden user there: no identity by which an account is looked up is hers.
const RENAMED: &[u8] =
    br#"~ The operator's records have her under another name in the other configuration; she asks for privacy, is answered, and hangs up, and her phone names her as phones do.
=config:sip 127.0.0.1:5060;web 127.0.0.1:8080;home home.example;peer 1 127.0.0.1:5071 trusted;peer 2 127.0.0.1:5072 untrusted;route home.example 1;route far.example 2;
=further:account 2 sip:bob@home.example;operator sip:op@home.example;mixer 127.0.0.1 40000;factory sip:conf@home.example;
=one:account 1 sip:alice@home.example tel:+4930111;
=other:account 1 sip:ann@home.example tel:+4930999;
at 0 peer 1|INVITE sip:bob@far.example SIP/2.0|Via: SIP/2.0/UDP 127.0.0.1:5071;branch=z9hG4bKa1|Max-Forwards: 68
|From: "{Alice^Ann}" <sip:{alice^ann}@home.example>;tag=a|To: <sip:bob@far.example>|Call-ID: c1|CSeq: 7 INVITE|Contact: <sip:{alice^ann}@127.0.0.1:5071>
|P-Asserted-Identity: <sip:{alice^ann}@home.example>, <tel:{+4930111^+4930999}>|Privacy: id|User-Agent: {one^another}|Content-Length: 0|
at 100 peer 2|SIP/2.0 180 Ringing|Via: SIP/2.0/UDP 127.0.0.1:5060;branch=z9hG4bK0123456789abcdef-4
|From: "Anonymous" <sip:anonymous@anonymous.invalid>;tag=0123456789abcdef-3|To: <sip:bob@far.example>;tag=bt|Call-ID: 0123456789abcdef-2|CSeq: 1 INVITE|Content-Length: 0|
at 200 peer 2|SIP/2.0 200 OK|Via: SIP/2.0/UDP 127.0.0.1:5060;branch=z9hG4bK0123456789abcdef-4|From: "Anonymous" <sip:anonymous@anonymous.invalid>;tag=0123456789abcdef-3
|To: <sip:bob@far.example>;tag=bt|Call-ID: 0123456789abcdef-2|CSeq: 1 INVITE|Contact: <sip:bob@127.0.0.1:5072>|Content-Length: 0|
at 300 peer 1|ACK sip:127.0.0.1:5060 SIP/2.0|Via: SIP/2.0/UDP 127.0.0.1:5071;branch=z9hG4bKk|Max-Forwards: 68|From: "{Alice^Ann}" <sip:{alice^ann}@home.example>;tag=a
|To: <sip:bob@far.example>;tag=0123456789abcdef-1|Call-ID: c1|CSeq: 7 ACK|Subject: {one^another}|Contact: <sip:{alice^ann}@127.0.0.1:5071>|Content-Length: 0|
at 400 peer 1|BYE sip:127.0.0.1:5060 SIP/2.0|Via: SIP/2.0/UDP 127.0.0.1:5071;branch=z9hG4bKy|Max-Forwards: 68|From: "{Alice^Ann}" <sip:{alice^ann}@home.example>;tag=a
|To: <sip:bob@far.example>;tag=0123456789abcdef-1|Call-ID: c1|CSeq: 8 BYE|User-Agent: {one^another}|P-Asserted-Identity: <sip:{alice^ann}@home.example>, <tel:{+4930111^+4930999}>
|Content-Length: 0|
~ So it is where the callee hangs up, and her phone answers in her name.
=config:sip 127.0.0.1:5060;web 127.0.0.1:8080;home home.example;peer 1 127.0.0.1:5071 trusted;peer 2 127.0.0.1:5072 untrusted;route home.example 1;route far.example 2;
=further:account 2 sip:bob@home.example;operator sip:op@home.example;mixer 127.0.0.1 40000;factory sip:conf@home.example;
=one:account 1 sip:alice@home.example tel:+4930111;
=other:account 1 sip:ann@home.example tel:+4930999;
at 0 peer 1|INVITE sip:bob@far.example SIP/2.0|Via: SIP/2.0/UDP 127.0.0.1:5071;branch=z9hG4bKa1|Max-Forwards: 68
|From: "{Alice^Ann}" <sip:{alice^ann}@home.example>;tag=a|To: <sip:bob@far.example>|Call-ID: c1|CSeq: 7 INVITE|Contact: <sip:{alice^ann}@127.0.0.1:5071>
|P-Asserted-Identity: <sip:{alice^ann}@home.example>, <tel:{+4930111^+4930999}>|Privacy: id|User-Agent: {one^another}|Content-Length: 0|
at 100 peer 2|SIP/2.0 180 Ringing|Via: SIP/2.0/UDP 127.0.0.1:5060;branch=z9hG4bK0123456789abcdef-4
|From: "Anonymous" <sip:anonymous@anonymous.invalid>;tag=0123456789abcdef-3|To: <sip:bob@far.example>;tag=bt|Call-ID: 0123456789abcdef-2|CSeq: 1 INVITE|Content-Length: 0|
at 200 peer 2|SIP/2.0 200 OK|Via: SIP/2.0/UDP 127.0.0.1:5060;branch=z9hG4bK0123456789abcdef-4|From: "Anonymous" <sip:anonymous@anonymous.invalid>;tag=0123456789abcdef-3
|To: <sip:bob@far.example>;tag=bt|Call-ID: 0123456789abcdef-2|CSeq: 1 INVITE|Contact: <sip:bob@127.0.0.1:5072>|Content-Length: 0|
at 300 peer 1|ACK sip:127.0.0.1:5060 SIP/2.0|Via: SIP/2.0/UDP 127.0.0.1:5071;branch=z9hG4bKk|Max-Forwards: 68|From: "{Alice^Ann}" <sip:{alice^ann}@home.example>;tag=a
|To: <sip:bob@far.example>;tag=0123456789abcdef-1|Call-ID: c1|CSeq: 7 ACK|Subject: {one^another}|Contact: <sip:{alice^ann}@127.0.0.1:5071>|Content-Length: 0|
at 400 peer 2|BYE sip:127.0.0.1:5060 SIP/2.0|Via: SIP/2.0/UDP 127.0.0.1:5072;branch=z9hG4bKy|Max-Forwards: 68|From: <sip:bob@far.example>;tag=bt
|To: "Anonymous" <sip:anonymous@anonymous.invalid>;tag=0123456789abcdef-3|Call-ID: 0123456789abcdef-2|CSeq: 1 BYE|Content-Length: 0|
at 410 peer 1|SIP/2.0 200 OK|Via: SIP/2.0/UDP 127.0.0.1:5060;branch=z9hG4bK0123456789abcdef-6|From: <sip:bob@far.example>;tag=0123456789abcdef-1
|To: "{Alice^Ann}" <sip:{alice^ann}@home.example>;tag=a|Call-ID: c1|CSeq: 1 BYE|Contact: <sip:{alice^ann}@127.0.0.1:5071>
|P-Asserted-Identity: <sip:{alice^ann}@home.example>, <tel:{+4930111^+4930999}>|Server: {one^another}|Content-Length: 0|
~ Where he asks again in the call her phone sends him on to her own name: nobody looks that up.
=config:sip 127.0.0.1:5060;web 127.0.0.1:8080;home home.example;peer 1 127.0.0.1:5071 trusted;peer 2 127.0.0.1:5072 untrusted;route home.example 1;route far.example 2;
=further:account 2 sip:bob@home.example;operator sip:op@home.example;mixer 127.0.0.1 40000;factory sip:conf@home.example;
=one:account 1 sip:alice@home.example tel:+4930111;
=other:account 1 sip:ann@home.example tel:+4930999;
at 0 peer 1|INVITE sip:bob@far.example SIP/2.0|Via: SIP/2.0/UDP 127.0.0.1:5071;branch=z9hG4bKa1|Max-Forwards: 68
|From: "{Alice^Ann}" <sip:{alice^ann}@home.example>;tag=a|To: <sip:bob@far.example>|Call-ID: c1|CSeq: 7 INVITE|Contact: <sip:{alice^ann}@127.0.0.1:5071>
|P-Asserted-Identity: <sip:{alice^ann}@home.example>, <tel:{+4930111^+4930999}>|Privacy: id|User-Agent: {one^another}|Content-Length: 0|
at 200 peer 2|SIP/2.0 200 OK|Via: SIP/2.0/UDP 127.0.0.1:5060;branch=z9hG4bK0123456789abcdef-4|From: "Anonymous" <sip:anonymous@anonymous.invalid>;tag=0123456789abcdef-3
|To: <sip:bob@far.example>;tag=bt|Call-ID: 0123456789abcdef-2|CSeq: 1 INVITE|Contact: <sip:bob@127.0.0.1:5072>|Content-Length: 0|
at 300 peer 1|ACK sip:127.0.0.1:5060 SIP/2.0|Via: SIP/2.0/UDP 127.0.0.1:5071;branch=z9hG4bKk|Max-Forwards: 68|From: "{Alice^Ann}" <sip:{alice^ann}@home.example>;tag=a
|To: <sip:bob@far.example>;tag=0123456789abcdef-1|Call-ID: c1|CSeq: 7 ACK|Subject: {one^another}|Contact: <sip:{alice^ann}@127.0.0.1:5071>|Content-Length: 0|
at 1000 peer 2|INVITE sip:127.0.0.1:5060 SIP/2.0|Via: SIP/2.0/UDP 127.0.0.1:5072;branch=z9hG4bKr|Max-Forwards: 68|From: <sip:bob@far.example>;tag=bt
|To: "Anonymous" <sip:anonymous@anonymous.invalid>;tag=0123456789abcdef-3|Call-ID: 0123456789abcdef-2|CSeq: 1 INVITE|Contact: <sip:bob@127.0.0.1:5072>|Content-Length: 0|
at 1010 peer 1|SIP/2.0 302 Moved Temporarily|Via: SIP/2.0/UDP 127.0.0.1:5060;branch=z9hG4bK0123456789abcdef-6|From: <sip:bob@far.example>;tag=0123456789abcdef-1
|To: "{Alice^Ann}" <sip:{alice^ann}@home.example>;tag=a|Call-ID: c1|CSeq: 1 INVITE|Contact: <sip:{alice^ann}@home.example>
|P-Asserted-Identity: <sip:{alice^ann}@home.example>, <tel:{+4930111^+4930999}>|Content-Length: 0|
~ She opens a room, has bob of the other network called into it, and closes it.
=config:sip 127.0.0.1:5060;web 127.0.0.1:8080;home home.example;peer 1 127.0.0.1:5071 trusted;peer 2 127.0.0.1:5072 untrusted;route home.example 1;route far.example 2;
=further:account 2 sip:bob@home.example;operator sip:op@home.example;mixer 127.0.0.1 40000;factory sip:conf@home.example;
=one:account 1 sip:alice@home.example tel:+4930111;
=other:account 1 sip:ann@home.example tel:+4930999;
at 0 peer 1|INVITE sip:conf@home.example SIP/2.0|Via: SIP/2.0/UDP 127.0.0.1:5071;branch=z9hG4bKf1|Max-Forwards: 68
|From: "{Alice^Ann}" <sip:{alice^ann}@home.example>;tag=a|To: <sip:conf@home.example>|Call-ID: c1|CSeq: 7 INVITE|Contact: <sip:{alice^ann}@127.0.0.1:5071>
|P-Asserted-Identity: <sip:{alice^ann}@home.example>, <tel:{+4930111^+4930999}>|Privacy: id|Content-Type: application/sdp|Content-Length: 123||v=0|o=- 1 1 IN IP4 127.0.0.1|s=-
|c=IN IP4 127.0.0.1|t=0 0|m=audio 5004 RTP/AVP 8 0|a=rtpmap:8 PCMA/8000|a=sendrecv
at 100 peer 1|ACK sip:room-1@127.0.0.1:5060 SIP/2.0|Via: SIP/2.0/UDP 127.0.0.1:5071;branch=z9hG4bKk1|Max-Forwards: 68
|From: "{Alice^Ann}" <sip:{alice^ann}@home.example>;tag=a|To: <sip:conf@home.example>;tag=0123456789abcdef-1|Call-ID: c1|CSeq: 7 ACK|Content-Length: 0|
at 200 peer 1|REFER sip:room-1@127.0.0.1:5060 SIP/2.0|Via: SIP/2.0/UDP 127.0.0.1:5071;branch=z9hG4bKr1|Max-Forwards: 68
|From: "{Alice^Ann}" <sip:{alice^ann}@home.example>;tag=a|To: <sip:conf@home.example>;tag=0123456789abcdef-1|Call-ID: c1|CSeq: 8 REFER|Refer-To: <sip:bob@far.example>
|Contact: <sip:{alice^ann}@127.0.0.1:5071>|Content-Length: 0|
at 210 peer 1|SIP/2.0 200 OK|Via: SIP/2.0/UDP 127.0.0.1:5060;branch=z9hG4bK0123456789abcdef-2|From: <sip:conf@home.example>;tag=0123456789abcdef-1
|To: "{Alice^Ann}" <sip:{alice^ann}@home.example>;tag=a|Call-ID: c1|CSeq: 1 NOTIFY|Contact: <sip:{alice^ann}@127.0.0.1:5071>|Content-Length: 0|
at 400 peer 2|SIP/2.0 200 OK|Via: SIP/2.0/UDP 127.0.0.1:5060;branch=z9hG4bK0123456789abcdef-5|From: <sip:room-1@127.0.0.1:5060>;tag=0123456789abcdef-4
|To: <sip:bob@far.example>;tag=bt|Call-ID: 0123456789abcdef-3|CSeq: 1 INVITE|Contact: <sip:bob@127.0.0.1:5072>|Content-Type: application/sdp|Content-Length: 123||v=0
|o=- 1 1 IN IP4 127.0.0.1|s=-|c=IN IP4 127.0.0.1|t=0 0|m=audio 5004 RTP/AVP 8 0|a=rtpmap:8 PCMA/8000|a=sendrecv
at 500 peer 1|BYE sip:room-1@127.0.0.1:5060 SIP/2.0|Via: SIP/2.0/UDP 127.0.0.1:5071;branch=z9hG4bKy1|Max-Forwards: 68
|From: "{Alice^Ann}" <sip:{alice^ann}@home.example>;tag=a|To: <sip:conf@home.example>;tag=0123456789abcdef-1|Call-ID: c1|CSeq: 9 BYE|Content-Length: 0|
"#;

/// She is named where an account is looked up, or is not restricted.
const NAMED: &[u8] = br#"~ Bob diverts her by the name that she has in one configuration alone.
=config:sip 127.0.0.1:5060;web 127.0.0.1:8080;home home.example;peer 1 127.0.0.1:5071 trusted;peer 2 127.0.0.1:5072 untrusted;route home.example 1;route far.example 2;
=further:account 2 sip:bob@home.example;operator sip:op@home.example;mixer 127.0.0.1 40000;factory sip:conf@home.example;
=one:account 1 sip:alice@home.example tel:+4930111;
=other:account 1 sip:ann@home.example tel:+4930999;
# [[communication-diversion.rule]]
# one = ["sip:alice@home.example"]
# target = "sip:vm@far.example"
at 0 web|PUT /simservs/2 HTTP/1.1|X-3GPP-Asserted-Identity: "sip:bob@home.example"|Content-Type: application/toml|Content-Length: 96|
x5b5b636f6d6d756e69636174696f6e2d646976657273696f6e2e72756c655d5d0a6f6e65203d205b227369703a616c69636540686f6d652e6578616d706c65225d0a746172676574203d20227369703\
a766d406661722e6578616d706c65220a
at 0 peer 1|INVITE sip:bob@home.example SIP/2.0|Via: SIP/2.0/UDP 127.0.0.1:5071;branch=z9hG4bKa1|Max-Forwards: 68
|From: "{Alice^Ann}" <sip:{alice^ann}@home.example>;tag=a|To: <sip:bob@home.example>|Call-ID: c1|CSeq: 7 INVITE|Contact: <sip:{alice^ann}@127.0.0.1:5071>
|P-Asserted-Identity: <sip:{alice^ann}@home.example>, <tel:{+4930111^+4930999}>|Privacy: id|User-Agent: {one^another}|Content-Length: 0|
~ Bob diverts to the name that she has in one configuration alone: in the other it is nobody's.
=config:sip 127.0.0.1:5060;web 127.0.0.1:8080;home home.example;peer 1 127.0.0.1:5071 trusted;peer 2 127.0.0.1:5072 untrusted;route home.example 1;route far.example 2;
=further:account 2 sip:bob@home.example;operator sip:op@home.example;mixer 127.0.0.1 40000;factory sip:conf@home.example;
=one:account 1 sip:alice@home.example tel:+4930111;
=other:account 1 sip:ann@home.example tel:+4930999;
# [[communication-diversion.rule]]
# target = "sip:alice@home.example"
at 0 web|PUT /simservs/2 HTTP/1.1|X-3GPP-Asserted-Identity: "sip:bob@home.example"|Content-Type: application/toml|Content-Length: 67|
x5b5b636f6d6d756e69636174696f6e2d646976657273696f6e2e72756c655d5d0a746172676574203d20227369703a616c69636540686f6d652e6578616d706c65220a
at 0 peer 2|INVITE sip:bob@home.example SIP/2.0|Via: SIP/2.0/UDP 127.0.0.1:5072;branch=z9hG4bKa1|Max-Forwards: 68|From: "Eve" <sip:eve@far.example>;tag=e
|To: <sip:bob@home.example>|Call-ID: c1|CSeq: 7 INVITE|Contact: <sip:eve@127.0.0.1:5072>|Content-Length: 0|
~ Somebody calls her by that name.
=config:sip 127.0.0.1:5060;web 127.0.0.1:8080;home home.example;peer 1 127.0.0.1:5071 trusted;peer 2 127.0.0.1:5072 untrusted;route home.example 1;route far.example 2;
=further:account 2 sip:bob@home.example;operator sip:op@home.example;mixer 127.0.0.1 40000;factory sip:conf@home.example;
=one:account 1 sip:alice@home.example tel:+4930111;
=other:account 1 sip:ann@home.example tel:+4930999;
at 0 peer 2|INVITE sip:alice@home.example SIP/2.0|Via: SIP/2.0/UDP 127.0.0.1:5072;branch=z9hG4bKa1|Max-Forwards: 68|From: "Eve" <sip:eve@far.example>;tag=e
|To: <sip:alice@home.example>|Call-ID: c1|CSeq: 7 INVITE|Contact: <sip:eve@127.0.0.1:5072>|Content-Length: 0|
~ She is shown as who she is where she asks for nothing.
=config:sip 127.0.0.1:5060;web 127.0.0.1:8080;home home.example;peer 1 127.0.0.1:5071 trusted;peer 2 127.0.0.1:5072 untrusted;route home.example 1;route far.example 2;
=further:account 2 sip:bob@home.example;operator sip:op@home.example;mixer 127.0.0.1 40000;factory sip:conf@home.example;
=one:account 1 sip:alice@home.example tel:+4930111;
=other:account 1 sip:ann@home.example tel:+4930999;
at 0 peer 1|INVITE sip:bob@far.example SIP/2.0|Via: SIP/2.0/UDP 127.0.0.1:5071;branch=z9hG4bKa1|Max-Forwards: 68
|From: "{Alice^Ann}" <sip:{alice^ann}@home.example>;tag=a|To: <sip:bob@far.example>|Call-ID: c1|CSeq: 7 INVITE|Contact: <sip:{alice^ann}@127.0.0.1:5071>
|P-Asserted-Identity: <sip:{alice^ann}@home.example>, <tel:{+4930111^+4930999}>|User-Agent: {one^another}|Content-Length: 0|
"#;

#[test]
fn secrets(rt: HostRuntime) {
    assert_right(&rt, "ALIKE", wrong_pair(rt.alloc(), ALIKE, true));
}

#[test]
fn what_is_no_secret(rt: HostRuntime) {
    assert_right(&rt, "APART", wrong_pair(rt.alloc(), APART, false));
}

#[test]
fn secrets_of_renamed_accounts(rt: HostRuntime) {
    assert_right(&rt, "RENAMED", wrong_pair(rt.alloc(), RENAMED, true));
}

#[test]
fn renamed_accounts_that_are_named(rt: HostRuntime) {
    assert_right(&rt, "NAMED", wrong_pair(rt.alloc(), NAMED, false));
}
