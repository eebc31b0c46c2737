//! Message waiting (3GPP TS 24.606, RFC 3842, RFC 6665): who subscribes to which mailbox, and what a subscriber is notified of.
//!
//! Each is a script and its expected listing, in the form of `cases`.

use crate::asserting::assert_right;
use crate::cases::wrong_run;

/// The runs.
const MAILBOXES: &[u8] =
    br#"~ Alice subscribes to her mailbox for 600 seconds. The operator says that two new messages wait, and then that three urgent ones do among two new ones.
=further:extension mwi;
at 0 peer 1|SUBSCRIBE sip:alice@home.example SIP/2.0|Via: SIP/2.0/UDP 127.0.0.1:5071;branch=z9hG4bKs1|Max-Forwards: 68|From: "Alice" <sip:alice@home.example>;tag=s1
|To: <sip:alice@home.example>|Call-ID: sub1|CSeq: 1 SUBSCRIBE|Contact: <sip:alice@127.0.0.1:5071>|P-Asserted-Identity: <sip:alice@home.example>|Event: message-summary
|Expires: 600|Content-Length: 0|
at 10 peer 1|SIP/2.0 200 OK|Via: SIP/2.0/UDP 127.0.0.1:5060;branch=z9hG4bK0123456789abcdef-2|From: <sip:alice@home.example>;tag=0123456789abcdef-1
|To: "Alice" <sip:alice@home.example>;tag=s1|Call-ID: sub1|CSeq: 1 NOTIFY|Content-Length: 0|
at 1000 web|PUT /mailbox/1 HTTP/1.1|X-3GPP-Asserted-Identity: "sip:op@home.example"|Content-Type: application/toml|Content-Length: 31|
x6e6577203d20320a6f6c64203d20380a757267656e742d6f6c64203d20320a
at 1010 peer 1|SIP/2.0 200 OK|Via: SIP/2.0/UDP 127.0.0.1:5060;branch=z9hG4bK0123456789abcdef-3|From: <sip:alice@home.example>;tag=0123456789abcdef-1
|To: "Alice" <sip:alice@home.example>;tag=s1|Call-ID: sub1|CSeq: 2 NOTIFY|Content-Length: 0|
at 2000 web|PUT /mailbox/1 HTTP/1.1|X-3GPP-Asserted-Identity: "sip:op@home.example"|Content-Type: application/toml|Content-Length: 23|
x6e6577203d20320a757267656e742d6e6577203d20330a
at 600000 quiet
~ 200, and NOTIFYs that tell none, and then two. The second document is refused. At the end of the time she is told so for the last time.
at 0 to 1|SIP/2.0 200 OK|Via: SIP/2.0/UDP 127.0.0.1:5071;branch=z9hG4bKs1|From: "Alice" <sip:alice@home.example>;tag=s1
|To: <sip:alice@home.example>;tag=0123456789abcdef-1|Call-ID: sub1|CSeq: 1 SUBSCRIBE|Contact: <sip:127.0.0.1:5060>|Expires: 600|Content-Length: 0|
at 0 to 1|NOTIFY sip:alice@127.0.0.1:5071 SIP/2.0|Via: SIP/2.0/UDP 127.0.0.1:5060;branch=z9hG4bK0123456789abcdef-2|Max-Forwards: 70
|From: <sip:alice@home.example>;tag=0123456789abcdef-1|To: "Alice" <sip:alice@home.example>;tag=s1|Call-ID: sub1|CSeq: 1 NOTIFY|Contact: <sip:127.0.0.1:5060>
|Event: message-summary|Subscription-State: active;expires=600|Content-Type: application/simple-message-summary|Content-Length: 48||Messages-Waiting: no
|Voice-Message: 0/0 (0/0)
at 1000 web|HTTP/1.1 200 OK|Content-Length: 0|Connection: close|
at 1000 to 1|NOTIFY sip:alice@127.0.0.1:5071 SIP/2.0|Via: SIP/2.0/UDP 127.0.0.1:5060;branch=z9hG4bK0123456789abcdef-3|Max-Forwards: 70
|From: <sip:alice@home.example>;tag=0123456789abcdef-1|To: "Alice" <sip:alice@home.example>;tag=s1|Call-ID: sub1|CSeq: 2 NOTIFY|Contact: <sip:127.0.0.1:5060>
|Event: message-summary|Subscription-State: active;expires=599|Content-Type: application/simple-message-summary|Content-Length: 49||Messages-Waiting: yes
|Voice-Message: 2/8 (0/2)
at 2000 web|HTTP/1.1 409 Conflict|Content-Type: text/plain|Content-Length: 17|Connection: close|
x77726f6e6720757267656e742d6e65770a
at 600000 to 1|NOTIFY sip:alice@127.0.0.1:5071 SIP/2.0|Via: SIP/2.0/UDP 127.0.0.1:5060;branch=z9hG4bK0123456789abcdef-4|Max-Forwards: 70
|From: <sip:alice@home.example>;tag=0123456789abcdef-1|To: "Alice" <sip:alice@home.example>;tag=s1|Call-ID: sub1|CSeq: 3 NOTIFY|Contact: <sip:127.0.0.1:5060>
|Event: message-summary|Subscription-State: terminated;reason=timeout|Content-Type: application/simple-message-summary|Content-Length: 49||Messages-Waiting: yes
|Voice-Message: 2/8 (0/2)
~ Bob subscribes to Alice's mailbox, and she to another event.
=further:extension mwi;
at 0 peer 1|SUBSCRIBE sip:alice@home.example SIP/2.0|Via: SIP/2.0/UDP 127.0.0.1:5071;branch=z9hG4bKs1|Max-Forwards: 68|From: "Bob" <sip:bob@home.example>;tag=s1
|To: <sip:alice@home.example>|Call-ID: sub1|CSeq: 1 SUBSCRIBE|Contact: <sip:bob@127.0.0.1:5071>|P-Asserted-Identity: <sip:bob@home.example>|Event: message-summary
|Expires: 600|Content-Length: 0|
at 0 peer 1|SUBSCRIBE sip:alice@home.example SIP/2.0|Via: SIP/2.0/UDP 127.0.0.1:5071;branch=z9hG4bKs2|Max-Forwards: 68|From: "Alice" <sip:alice@home.example>;tag=s2
|To: <sip:alice@home.example>|Call-ID: sub2|CSeq: 1 SUBSCRIBE|Contact: <sip:alice@127.0.0.1:5071>|P-Asserted-Identity: <sip:alice@home.example>|Event: presence
|Expires: 600|Content-Length: 0|
~ 403; and 489 with the event that is known.
at 0 to 1|SIP/2.0 403 Forbidden|Via: SIP/2.0/UDP 127.0.0.1:5071;branch=z9hG4bKs1|From: "Bob" <sip:bob@home.example>;tag=s1
|To: <sip:alice@home.example>;tag=0123456789abcdef-1|Call-ID: sub1|CSeq: 1 SUBSCRIBE|Content-Length: 0|
at 0 to 1|SIP/2.0 489 Bad Event|Via: SIP/2.0/UDP 127.0.0.1:5071;branch=z9hG4bKs2|From: "Alice" <sip:alice@home.example>;tag=s2
|To: <sip:alice@home.example>;tag=0123456789abcdef-2|Call-ID: sub2|CSeq: 1 SUBSCRIBE|Allow-Events: message-summary|Content-Length: 0|
~ A NOTIFY is refused.
=further:extension mwi;
at 0 peer 1|SUBSCRIBE sip:alice@home.example SIP/2.0|Via: SIP/2.0/UDP 127.0.0.1:5071;branch=z9hG4bKs1|Max-Forwards: 68|From: "Alice" <sip:alice@home.example>;tag=s1
|To: <sip:alice@home.example>|Call-ID: sub1|CSeq: 5 SUBSCRIBE|Contact: <sip:alice@127.0.0.1:5071>|P-Asserted-Identity: <sip:alice@home.example>|Event: message-summary
|Expires: 60|Content-Length: 0|
at 10 peer 1|SIP/2.0 481 OK|Via: SIP/2.0/UDP 127.0.0.1:5060;branch=z9hG4bK0123456789abcdef-2|From: <sip:alice@home.example>;tag=0123456789abcdef-1
|To: "Alice" <sip:alice@home.example>;tag=s1|Call-ID: sub1|CSeq: 1 NOTIFY|Content-Length: 0|
at 70000 quiet
~ The subscription has ended: nothing more is sent.
at 0 to 1|SIP/2.0 200 OK|Via: SIP/2.0/UDP 127.0.0.1:5071;branch=z9hG4bKs1|From: "Alice" <sip:alice@home.example>;tag=s1
|To: <sip:alice@home.example>;tag=0123456789abcdef-1|Call-ID: sub1|CSeq: 5 SUBSCRIBE|Contact: <sip:127.0.0.1:5060>|Expires: 60|Content-Length: 0|
at 0 to 1|NOTIFY sip:alice@127.0.0.1:5071 SIP/2.0|Via: SIP/2.0/UDP 127.0.0.1:5060;branch=z9hG4bK0123456789abcdef-2|Max-Forwards: 70
|From: <sip:alice@home.example>;tag=0123456789abcdef-1|To: "Alice" <sip:alice@home.example>;tag=s1|Call-ID: sub1|CSeq: 1 NOTIFY|Contact: <sip:127.0.0.1:5060>
|Event: message-summary|Subscription-State: active;expires=60|Content-Type: application/simple-message-summary|Content-Length: 48||Messages-Waiting: no
|Voice-Message: 0/0 (0/0)
~ What is asked in the dialog of a subscription: it is refreshed, asked for OPTIONS, REFER and what there is not, with an old number, and ended.
=further:extension mwi;
at 0 peer 1|SUBSCRIBE sip:alice@home.example SIP/2.0|Via: SIP/2.0/UDP 127.0.0.1:5071;branch=z9hG4bKs1|Max-Forwards: 68|From: "Alice" <sip:alice@home.example>;tag=s1
|To: <sip:alice@home.example>|Call-ID: sub1|CSeq: 5 SUBSCRIBE|Contact: <sip:alice@127.0.0.1:5071>|P-Asserted-Identity: <sip:alice@home.example>|Event: message-summary
|Content-Length: 0|
at 10 peer 1|SIP/2.0 200 OK|Via: SIP/2.0/UDP 127.0.0.1:5060;branch=z9hG4bK0123456789abcdef-2|From: <sip:alice@home.example>;tag=0123456789abcdef-1
|To: "Alice" <sip:alice@home.example>;tag=s1|Call-ID: sub1|CSeq: 1 NOTIFY|Content-Length: 0|
at 100 peer 1|SUBSCRIBE sip:alice@home.example SIP/2.0|Via: SIP/2.0/UDP 127.0.0.1:5071;branch=z9hG4bKs2|Max-Forwards: 68|From: "Alice" <sip:alice@home.example>;tag=s1
|To: <sip:alice@home.example>;tag=0123456789abcdef-1|Call-ID: sub1|CSeq: 4 SUBSCRIBE|Contact: <sip:alice@127.0.0.1:5071>|P-Asserted-Identity: <sip:alice@home.example>
|Event: message-summary|Content-Length: 0|
at 110 peer 1|OPTIONS sip:alice@home.example SIP/2.0|Via: SIP/2.0/UDP 127.0.0.1:5071;branch=z9hG4bKs3|Max-Forwards: 68|From: "Alice" <sip:alice@home.example>;tag=s1
|To: <sip:alice@home.example>;tag=0123456789abcdef-1|Call-ID: sub1|CSeq: 6 OPTIONS|Contact: <sip:alice@127.0.0.1:5071>|P-Asserted-Identity: <sip:alice@home.example>
|Content-Length: 0|
at 120 peer 1|REFER sip:alice@home.example SIP/2.0|Via: SIP/2.0/UDP 127.0.0.1:5071;branch=z9hG4bKs4|Max-Forwards: 68|From: "Alice" <sip:alice@home.example>;tag=s1
|To: <sip:alice@home.example>;tag=0123456789abcdef-1|Call-ID: sub1|CSeq: 7 REFER|Contact: <sip:alice@127.0.0.1:5071>|P-Asserted-Identity: <sip:alice@home.example>
|Content-Length: 0|
at 130 peer 1|BYE sip:alice@home.example SIP/2.0|Via: SIP/2.0/UDP 127.0.0.1:5071;branch=z9hG4bKs5|Max-Forwards: 68|From: "Alice" <sip:alice@home.example>;tag=s1
|To: <sip:alice@home.example>;tag=0123456789abcdef-1|Call-ID: sub1|CSeq: 8 BYE|Contact: <sip:alice@127.0.0.1:5071>|P-Asserted-Identity: <sip:alice@home.example>
|Content-Length: 0|
at 140 peer 1|SUBSCRIBE sip:alice@home.example SIP/2.0|Via: SIP/2.0/UDP 127.0.0.1:5071;branch=z9hG4bKs6|Max-Forwards: 68|From: "Alice" <sip:alice@home.example>;tag=s1
|To: <sip:alice@home.example>;tag=0123456789abcdef-1|Call-ID: sub1|CSeq: 9 SUBSCRIBE|Contact: <sip:alice@127.0.0.1:5071>|P-Asserted-Identity: <sip:alice@home.example>
|Event: message-summary|Expires: 999999|Content-Length: 0|
at 150 peer 1|SIP/2.0 200 OK|Via: SIP/2.0/UDP 127.0.0.1:5060;branch=z9hG4bK0123456789abcdef-3|From: <sip:alice@home.example>;tag=0123456789abcdef-1
|To: "Alice" <sip:alice@home.example>;tag=s1|Call-ID: sub1|CSeq: 2 NOTIFY|Content-Length: 0|
at 160 peer 1|SUBSCRIBE sip:alice@home.example SIP/2.0|Via: SIP/2.0/UDP 127.0.0.1:5071;branch=z9hG4bKs7|Max-Forwards: 68|From: "Alice" <sip:alice@home.example>;tag=s1
|To: <sip:alice@home.example>;tag=0123456789abcdef-1|Call-ID: sub1|CSeq: 10 SUBSCRIBE|Contact: <sip:alice@127.0.0.1:5071>|P-Asserted-Identity: <sip:alice@home.example>
|Event: x|Content-Length: 0|
at 200 peer 1|SUBSCRIBE sip:alice@home.example SIP/2.0|Via: SIP/2.0/UDP 127.0.0.1:5071;branch=z9hG4bKs8|Max-Forwards: 68|From: "Alice" <sip:alice@home.example>;tag=s1
|To: <sip:alice@home.example>;tag=0123456789abcdef-1|Call-ID: sub1|CSeq: 11 SUBSCRIBE|Contact: <sip:alice@127.0.0.1:5071>|P-Asserted-Identity: <sip:alice@home.example>
|Event: message-summary|Expires: 0|Content-Length: 0|
at 210 peer 1|SIP/2.0 200 OK|Via: SIP/2.0/UDP 127.0.0.1:5060;branch=z9hG4bK0123456789abcdef-4|From: <sip:alice@home.example>;tag=0123456789abcdef-1
|To: "Alice" <sip:alice@home.example>;tag=s1|Call-ID: sub1|CSeq: 3 NOTIFY|Content-Length: 0|
at 220 peer 1|SUBSCRIBE sip:alice@home.example SIP/2.0|Via: SIP/2.0/UDP 127.0.0.1:5071;branch=z9hG4bKs9|Max-Forwards: 68|From: "Alice" <sip:alice@home.example>;tag=s1
|To: <sip:alice@home.example>;tag=0123456789abcdef-1|Call-ID: sub1|CSeq: 12 SUBSCRIBE|Contact: <sip:alice@127.0.0.1:5071>|P-Asserted-Identity: <sip:alice@home.example>
|Event: message-summary|Content-Length: 0|
~ Each has its answer, and a refresh that is accepted its NOTIFY.
at 0 to 1|SIP/2.0 200 OK|Via: SIP/2.0/UDP 127.0.0.1:5071;branch=z9hG4bKs1|From: "Alice" <sip:alice@home.example>;tag=s1
|To: <sip:alice@home.example>;tag=0123456789abcdef-1|Call-ID: sub1|CSeq: 5 SUBSCRIBE|Contact: <sip:127.0.0.1:5060>|Expires: 3600|Content-Length: 0|
at 0 to 1|NOTIFY sip:alice@127.0.0.1:5071 SIP/2.0|Via: SIP/2.0/UDP 127.0.0.1:5060;branch=z9hG4bK0123456789abcdef-2|Max-Forwards: 70
|From: <sip:alice@home.example>;tag=0123456789abcdef-1|To: "Alice" <sip:alice@home.example>;tag=s1|Call-ID: sub1|CSeq: 1 NOTIFY|Contact: <sip:127.0.0.1:5060>
|Event: message-summary|Subscription-State: active;expires=3600|Content-Type: application/simple-message-summary|Content-Length: 48||Messages-Waiting: no
|Voice-Message: 0/0 (0/0)
at 100 to 1|SIP/2.0 500 Server Internal Error|Via: SIP/2.0/UDP 127.0.0.1:5071;branch=z9hG4bKs2|From: "Alice" <sip:alice@home.example>;tag=s1
|To: <sip:alice@home.example>;tag=0123456789abcdef-1|Call-ID: sub1|CSeq: 4 SUBSCRIBE|Content-Length: 0|
at 110 to 1|SIP/2.0 200 OK|Via: SIP/2.0/UDP 127.0.0.1:5071;branch=z9hG4bKs3|From: "Alice" <sip:alice@home.example>;tag=s1
|To: <sip:alice@home.example>;tag=0123456789abcdef-1|Call-ID: sub1|CSeq: 6 OPTIONS|Allow: INVITE, ACK, CANCEL, BYE, OPTIONS, REGISTER, REFER, SUBSCRIBE
|Content-Length: 0|
at 120 to 1|SIP/2.0 403 Forbidden|Via: SIP/2.0/UDP 127.0.0.1:5071;branch=z9hG4bKs4|From: "Alice" <sip:alice@home.example>;tag=s1
|To: <sip:alice@home.example>;tag=0123456789abcdef-1|Call-ID: sub1|CSeq: 7 REFER|Content-Length: 0|
at 130 to 1|SIP/2.0 481 Call/Transaction Does Not Exist|Via: SIP/2.0/UDP 127.0.0.1:5071;branch=z9hG4bKs5|From: "Alice" <sip:alice@home.example>;tag=s1
|To: <sip:alice@home.example>;tag=0123456789abcdef-1|Call-ID: sub1|CSeq: 8 BYE|Content-Length: 0|
at 140 to 1|SIP/2.0 200 OK|Via: SIP/2.0/UDP 127.0.0.1:5071;branch=z9hG4bKs6|From: "Alice" <sip:alice@home.example>;tag=s1
|To: <sip:alice@home.example>;tag=0123456789abcdef-1|Call-ID: sub1|CSeq: 9 SUBSCRIBE|Contact: <sip:127.0.0.1:5060>|Expires: 86400|Content-Length: 0|
at 140 to 1|NOTIFY sip:alice@127.0.0.1:5071 SIP/2.0|Via: SIP/2.0/UDP 127.0.0.1:5060;branch=z9hG4bK0123456789abcdef-3|Max-Forwards: 70
|From: <sip:alice@home.example>;tag=0123456789abcdef-1|To: "Alice" <sip:alice@home.example>;tag=s1|Call-ID: sub1|CSeq: 2 NOTIFY|Contact: <sip:127.0.0.1:5060>
|Event: message-summary|Subscription-State: active;expires=86400|Content-Type: application/simple-message-summary|Content-Length: 48||Messages-Waiting: no
|Voice-Message: 0/0 (0/0)
at 160 to 1|SIP/2.0 489 Bad Event|Via: SIP/2.0/UDP 127.0.0.1:5071;branch=z9hG4bKs7|From: "Alice" <sip:alice@home.example>;tag=s1
|To: <sip:alice@home.example>;tag=0123456789abcdef-1|Call-ID: sub1|CSeq: 10 SUBSCRIBE|Allow-Events: message-summary|Content-Length: 0|
at 200 to 1|SIP/2.0 200 OK|Via: SIP/2.0/UDP 127.0.0.1:5071;branch=z9hG4bKs8|From: "Alice" <sip:alice@home.example>;tag=s1
|To: <sip:alice@home.example>;tag=0123456789abcdef-1|Call-ID: sub1|CSeq: 11 SUBSCRIBE|Contact: <sip:127.0.0.1:5060>|Expires: 0|Content-Length: 0|
at 200 to 1|NOTIFY sip:alice@127.0.0.1:5071 SIP/2.0|Via: SIP/2.0/UDP 127.0.0.1:5060;branch=z9hG4bK0123456789abcdef-4|Max-Forwards: 70
|From: <sip:alice@home.example>;tag=0123456789abcdef-1|To: "Alice" <sip:alice@home.example>;tag=s1|Call-ID: sub1|CSeq: 3 NOTIFY|Contact: <sip:127.0.0.1:5060>
|Event: message-summary|Subscription-State: terminated;reason=timeout|Content-Type: application/simple-message-summary|Content-Length: 48||Messages-Waiting: no
|Voice-Message: 0/0 (0/0)
at 220 to 1|SIP/2.0 481 Call/Transaction Does Not Exist|Via: SIP/2.0/UDP 127.0.0.1:5071;branch=z9hG4bKs9|From: "Alice" <sip:alice@home.example>;tag=s1
|To: <sip:alice@home.example>;tag=0123456789abcdef-1|Call-ID: sub1|CSeq: 12 SUBSCRIBE|Content-Length: 0|
~ A refresh at the very moment at which the subscription ends.
=further:extension mwi;
at 0 peer 1|SUBSCRIBE sip:alice@home.example SIP/2.0|Via: SIP/2.0/UDP 127.0.0.1:5071;branch=z9hG4bKs1|Max-Forwards: 68|From: "Alice" <sip:alice@home.example>;tag=s1
|To: <sip:alice@home.example>|Call-ID: sub1|CSeq: 1 SUBSCRIBE|Contact: <sip:alice@127.0.0.1:5071>|P-Asserted-Identity: <sip:alice@home.example>|Event: message-summary
|Expires: 60|Content-Length: 0|
at 10 peer 1|SIP/2.0 200 OK|Via: SIP/2.0/UDP 127.0.0.1:5060;branch=z9hG4bK0123456789abcdef-2|From: <sip:alice@home.example>;tag=0123456789abcdef-1
|To: "Alice" <sip:alice@home.example>;tag=s1|Call-ID: sub1|CSeq: 1 NOTIFY|Content-Length: 0|
at 60000 peer 1|SUBSCRIBE sip:alice@home.example SIP/2.0|Via: SIP/2.0/UDP 127.0.0.1:5071;branch=z9hG4bKs2|Max-Forwards: 68|From: "Alice" <sip:alice@home.example>;tag=s1
|To: <sip:alice@home.example>;tag=0123456789abcdef-1|Call-ID: sub1|CSeq: 2 SUBSCRIBE|Contact: <sip:alice@127.0.0.1:5071>|P-Asserted-Identity: <sip:alice@home.example>
|Event: message-summary|Expires: 60|Content-Length: 0|
~ The last NOTIFY goes out first, and the SUBSCRIBE is of no subscription any more.
at 0 to 1|SIP/2.0 200 OK|Via: SIP/2.0/UDP 127.0.0.1:5071;branch=z9hG4bKs1|From: "Alice" <sip:alice@home.example>;tag=s1
|To: <sip:alice@home.example>;tag=0123456789abcdef-1|Call-ID: sub1|CSeq: 1 SUBSCRIBE|Contact: <sip:127.0.0.1:5060>|Expires: 60|Content-Length: 0|
at 0 to 1|NOTIFY sip:alice@127.0.0.1:5071 SIP/2.0|Via: SIP/2.0/UDP 127.0.0.1:5060;branch=z9hG4bK0123456789abcdef-2|Max-Forwards: 70
|From: <sip:alice@home.example>;tag=0123456789abcdef-1|To: "Alice" <sip:alice@home.example>;tag=s1|Call-ID: sub1|CSeq: 1 NOTIFY|Contact: <sip:127.0.0.1:5060>
|Event: message-summary|Subscription-State: active;expires=60|Content-Type: application/simple-message-summary|Content-Length: 48||Messages-Waiting: no
|Voice-Message: 0/0 (0/0)
at 60000 to 1|NOTIFY sip:alice@127.0.0.1:5071 SIP/2.0|Via: SIP/2.0/UDP 127.0.0.1:5060;branch=z9hG4bK0123456789abcdef-3|Max-Forwards: 70
|From: <sip:alice@home.example>;tag=0123456789abcdef-1|To: "Alice" <sip:alice@home.example>;tag=s1|Call-ID: sub1|CSeq: 2 NOTIFY|Contact: <sip:127.0.0.1:5060>
|Event: message-summary|Subscription-State: terminated;reason=timeout|Content-Type: application/simple-message-summary|Content-Length: 48||Messages-Waiting: no
|Voice-Message: 0/0 (0/0)
at 60000 to 1|SIP/2.0 481 Call/Transaction Does Not Exist|Via: SIP/2.0/UDP 127.0.0.1:5071;branch=z9hG4bKs2|From: "Alice" <sip:alice@home.example>;tag=s1
|To: <sip:alice@home.example>;tag=0123456789abcdef-1|Call-ID: sub1|CSeq: 2 SUBSCRIBE|Content-Length: 0|
~ A refresh that shortens nothing and is later: the time that the first SUBSCRIBE set passes.
=further:extension mwi;
at 0 peer 1|SUBSCRIBE sip:alice@home.example SIP/2.0|Via: SIP/2.0/UDP 127.0.0.1:5071;branch=z9hG4bKs1|Max-Forwards: 68|From: "Alice" <sip:alice@home.example>;tag=s1
|To: <sip:alice@home.example>|Call-ID: sub1|CSeq: 1 SUBSCRIBE|Contact: <sip:alice@127.0.0.1:5071>|P-Asserted-Identity: <sip:alice@home.example>|Event: message-summary
|Expires: 60|Content-Length: 0|
at 10 peer 1|SIP/2.0 200 OK|Via: SIP/2.0/UDP 127.0.0.1:5060;branch=z9hG4bK0123456789abcdef-2|From: <sip:alice@home.example>;tag=0123456789abcdef-1
|To: "Alice" <sip:alice@home.example>;tag=s1|Call-ID: sub1|CSeq: 1 NOTIFY|Content-Length: 0|
at 1000 peer 1|SUBSCRIBE sip:alice@home.example SIP/2.0|Via: SIP/2.0/UDP 127.0.0.1:5071;branch=z9hG4bKs2|Max-Forwards: 68|From: "Alice" <sip:alice@home.example>;tag=s1
|To: <sip:alice@home.example>;tag=0123456789abcdef-1|Call-ID: sub1|CSeq: 2 SUBSCRIBE|Contact: <sip:alice@127.0.0.1:5071>|P-Asserted-Identity: <sip:alice@home.example>
|Event: message-summary|Expires: 600|Content-Length: 0|
at 1010 peer 1|SIP/2.0 200 OK|Via: SIP/2.0/UDP 127.0.0.1:5060;branch=z9hG4bK0123456789abcdef-3|From: <sip:alice@home.example>;tag=0123456789abcdef-1
|To: "Alice" <sip:alice@home.example>;tag=s1|Call-ID: sub1|CSeq: 2 NOTIFY|Content-Length: 0|
at 100000 quiet
at 100000 peer 1|SUBSCRIBE sip:alice@home.example SIP/2.0|Via: SIP/2.0/UDP 127.0.0.1:5071;branch=z9hG4bKs3|Max-Forwards: 68
|From: "Alice" <sip:alice@home.example>;tag=s1|To: <sip:alice@home.example>;tag=0123456789abcdef-1|Call-ID: sub1|CSeq: 3 SUBSCRIBE|Contact: <sip:alice@127.0.0.1:5071>
|P-Asserted-Identity: <sip:alice@home.example>|Event: message-summary|Expires: 10|Content-Length: 0|
at 100010 peer 1|SIP/2.0 200 OK|Via: SIP/2.0/UDP 127.0.0.1:5060;branch=z9hG4bK0123456789abcdef-4|From: <sip:alice@home.example>;tag=0123456789abcdef-1
|To: "Alice" <sip:alice@home.example>;tag=s1|Call-ID: sub1|CSeq: 3 NOTIFY|Content-Length: 0|
at 120000 quiet
~ Nothing is said at it; the last NOTIFY comes at the later time.
at 0 to 1|SIP/2.0 200 OK|Via: SIP/2.0/UDP 127.0.0.1:5071;branch=z9hG4bKs1|From: "Alice" <sip:alice@home.example>;tag=s1
|To: <sip:alice@home.example>;tag=0123456789abcdef-1|Call-ID: sub1|CSeq: 1 SUBSCRIBE|Contact: <sip:127.0.0.1:5060>|Expires: 60|Content-Length: 0|
at 0 to 1|NOTIFY sip:alice@127.0.0.1:5071 SIP/2.0|Via: SIP/2.0/UDP 127.0.0.1:5060;branch=z9hG4bK0123456789abcdef-2|Max-Forwards: 70
|From: <sip:alice@home.example>;tag=0123456789abcdef-1|To: "Alice" <sip:alice@home.example>;tag=s1|Call-ID: sub1|CSeq: 1 NOTIFY|Contact: <sip:127.0.0.1:5060>
|Event: message-summary|Subscription-State: active;expires=60|Content-Type: application/simple-message-summary|Content-Length: 48||Messages-Waiting: no
|Voice-Message: 0/0 (0/0)
at 1000 to 1|SIP/2.0 200 OK|Via: SIP/2.0/UDP 127.0.0.1:5071;branch=z9hG4bKs2|From: "Alice" <sip:alice@home.example>;tag=s1
|To: <sip:alice@home.example>;tag=0123456789abcdef-1|Call-ID: sub1|CSeq: 2 SUBSCRIBE|Contact: <sip:127.0.0.1:5060>|Expires: 600|Content-Length: 0|
at 1000 to 1|NOTIFY sip:alice@127.0.0.1:5071 SIP/2.0|Via: SIP/2.0/UDP 127.0.0.1:5060;branch=z9hG4bK0123456789abcdef-3|Max-Forwards: 70
|From: <sip:alice@home.example>;tag=0123456789abcdef-1|To: "Alice" <sip:alice@home.example>;tag=s1|Call-ID: sub1|CSeq: 2 NOTIFY|Contact: <sip:127.0.0.1:5060>
|Event: message-summary|Subscription-State: active;expires=600|Content-Type: application/simple-message-summary|Content-Length: 48||Messages-Waiting: no
|Voice-Message: 0/0 (0/0)
at 100000 to 1|SIP/2.0 200 OK|Via: SIP/2.0/UDP 127.0.0.1:5071;branch=z9hG4bKs3|From: "Alice" <sip:alice@home.example>;tag=s1
|To: <sip:alice@home.example>;tag=0123456789abcdef-1|Call-ID: sub1|CSeq: 3 SUBSCRIBE|Contact: <sip:127.0.0.1:5060>|Expires: 10|Content-Length: 0|
at 100000 to 1|NOTIFY sip:alice@127.0.0.1:5071 SIP/2.0|Via: SIP/2.0/UDP 127.0.0.1:5060;branch=z9hG4bK0123456789abcdef-4|Max-Forwards: 70
|From: <sip:alice@home.example>;tag=0123456789abcdef-1|To: "Alice" <sip:alice@home.example>;tag=s1|Call-ID: sub1|CSeq: 3 NOTIFY|Contact: <sip:127.0.0.1:5060>
|Event: message-summary|Subscription-State: active;expires=10|Content-Type: application/simple-message-summary|Content-Length: 48||Messages-Waiting: no
|Voice-Message: 0/0 (0/0)
at 110000 to 1|NOTIFY sip:alice@127.0.0.1:5071 SIP/2.0|Via: SIP/2.0/UDP 127.0.0.1:5060;branch=z9hG4bK0123456789abcdef-5|Max-Forwards: 70
|From: <sip:alice@home.example>;tag=0123456789abcdef-1|To: "Alice" <sip:alice@home.example>;tag=s1|Call-ID: sub1|CSeq: 4 NOTIFY|Contact: <sip:127.0.0.1:5060>
|Event: message-summary|Subscription-State: terminated;reason=timeout|Content-Type: application/simple-message-summary|Content-Length: 48||Messages-Waiting: no
|Voice-Message: 0/0 (0/0)
at 110500 to 1|NOTIFY sip:alice@127.0.0.1:5071 SIP/2.0|Via: SIP/2.0/UDP 127.0.0.1:5060;branch=z9hG4bK0123456789abcdef-5|Max-Forwards: 70
|From: <sip:alice@home.example>;tag=0123456789abcdef-1|To: "Alice" <sip:alice@home.example>;tag=s1|Call-ID: sub1|CSeq: 4 NOTIFY|Contact: <sip:127.0.0.1:5060>
|Event: message-summary|Subscription-State: terminated;reason=timeout|Content-Type: application/simple-message-summary|Content-Length: 48||Messages-Waiting: no
|Voice-Message: 0/0 (0/0)
at 111500 to 1|NOTIFY sip:alice@127.0.0.1:5071 SIP/2.0|Via: SIP/2.0/UDP 127.0.0.1:5060;branch=z9hG4bK0123456789abcdef-5|Max-Forwards: 70
|From: <sip:alice@home.example>;tag=0123456789abcdef-1|To: "Alice" <sip:alice@home.example>;tag=s1|Call-ID: sub1|CSeq: 4 NOTIFY|Contact: <sip:127.0.0.1:5060>
|Event: message-summary|Subscription-State: terminated;reason=timeout|Content-Type: application/simple-message-summary|Content-Length: 48||Messages-Waiting: no
|Voice-Message: 0/0 (0/0)
at 113500 to 1|NOTIFY sip:alice@127.0.0.1:5071 SIP/2.0|Via: SIP/2.0/UDP 127.0.0.1:5060;branch=z9hG4bK0123456789abcdef-5|Max-Forwards: 70
|From: <sip:alice@home.example>;tag=0123456789abcdef-1|To: "Alice" <sip:alice@home.example>;tag=s1|Call-ID: sub1|CSeq: 4 NOTIFY|Contact: <sip:127.0.0.1:5060>
|Event: message-summary|Subscription-State: terminated;reason=timeout|Content-Type: application/simple-message-summary|Content-Length: 48||Messages-Waiting: no
|Voice-Message: 0/0 (0/0)
at 117500 to 1|NOTIFY sip:alice@127.0.0.1:5071 SIP/2.0|Via: SIP/2.0/UDP 127.0.0.1:5060;branch=z9hG4bK0123456789abcdef-5|Max-Forwards: 70
|From: <sip:alice@home.example>;tag=0123456789abcdef-1|To: "Alice" <sip:alice@home.example>;tag=s1|Call-ID: sub1|CSeq: 4 NOTIFY|Contact: <sip:127.0.0.1:5060>
|Event: message-summary|Subscription-State: terminated;reason=timeout|Content-Type: application/simple-message-summary|Content-Length: 48||Messages-Waiting: no
|Voice-Message: 0/0 (0/0)
~ Two subscriptions to one mailbox that end at one moment, of which the first is refreshed to that moment.
=further:extension mwi;
at 0 peer 1|SUBSCRIBE sip:alice@home.example SIP/2.0|Via: SIP/2.0/UDP 127.0.0.1:5071;branch=z9hG4bKs1|Max-Forwards: 68|From: "Alice" <sip:alice@home.example>;tag=s1
|To: <sip:alice@home.example>|Call-ID: sub1|CSeq: 1 SUBSCRIBE|Contact: <sip:alice@127.0.0.1:5071>|P-Asserted-Identity: <sip:alice@home.example>|Event: message-summary
|Expires: 60|Content-Length: 0|
at 10 peer 1|SIP/2.0 200 OK|Via: SIP/2.0/UDP 127.0.0.1:5060;branch=z9hG4bK0123456789abcdef-2|From: <sip:alice@home.example>;tag=0123456789abcdef-1
|To: "Alice" <sip:alice@home.example>;tag=s1|Call-ID: sub1|CSeq: 1 NOTIFY|Content-Length: 0|
at 1000 peer 1|SUBSCRIBE sip:bob@home.example SIP/2.0|Via: SIP/2.0/UDP 127.0.0.1:5071;branch=z9hG4bKs2|Max-Forwards: 68|From: "Bob" <sip:bob@home.example>;tag=s1
|To: <sip:bob@home.example>|Call-ID: sub2|CSeq: 1 SUBSCRIBE|Contact: <sip:bob@127.0.0.1:5071>|P-Asserted-Identity: <sip:bob@home.example>|Event: message-summary
|Expires: 59|Content-Length: 0|
at 1010 peer 1|SIP/2.0 200 OK|Via: SIP/2.0/UDP 127.0.0.1:5060;branch=z9hG4bK0123456789abcdef-4|From: <sip:bob@home.example>;tag=0123456789abcdef-3
|To: "Bob" <sip:bob@home.example>;tag=s1|Call-ID: sub2|CSeq: 1 NOTIFY|Content-Length: 0|
at 2000 peer 1|SUBSCRIBE sip:alice@home.example SIP/2.0|Via: SIP/2.0/UDP 127.0.0.1:5071;branch=z9hG4bKs3|Max-Forwards: 68|From: "Alice" <sip:alice@home.example>;tag=s1
|To: <sip:alice@home.example>;tag=0123456789abcdef-1|Call-ID: sub1|CSeq: 2 SUBSCRIBE|Contact: <sip:alice@127.0.0.1:5071>|P-Asserted-Identity: <sip:alice@home.example>
|Event: message-summary|Expires: 58|Content-Length: 0|
at 2010 peer 1|SIP/2.0 200 OK|Via: SIP/2.0/UDP 127.0.0.1:5060;branch=z9hG4bK0123456789abcdef-5|From: <sip:alice@home.example>;tag=0123456789abcdef-1
|To: "Alice" <sip:alice@home.example>;tag=s1|Call-ID: sub1|CSeq: 2 NOTIFY|Content-Length: 0|
at 60000 quiet
~ It ends behind the other one.
at 0 to 1|SIP/2.0 200 OK|Via: SIP/2.0/UDP 127.0.0.1:5071;branch=z9hG4bKs1|From: "Alice" <sip:alice@home.example>;tag=s1
|To: <sip:alice@home.example>;tag=0123456789abcdef-1|Call-ID: sub1|CSeq: 1 SUBSCRIBE|Contact: <sip:127.0.0.1:5060>|Expires: 60|Content-Length: 0|
at 0 to 1|NOTIFY sip:alice@127.0.0.1:5071 SIP/2.0|Via: SIP/2.0/UDP 127.0.0.1:5060;branch=z9hG4bK0123456789abcdef-2|Max-Forwards: 70
|From: <sip:alice@home.example>;tag=0123456789abcdef-1|To: "Alice" <sip:alice@home.example>;tag=s1|Call-ID: sub1|CSeq: 1 NOTIFY|Contact: <sip:127.0.0.1:5060>
|Event: message-summary|Subscription-State: active;expires=60|Content-Type: application/simple-message-summary|Content-Length: 48||Messages-Waiting: no
|Voice-Message: 0/0 (0/0)
at 1000 to 1|SIP/2.0 200 OK|Via: SIP/2.0/UDP 127.0.0.1:5071;branch=z9hG4bKs2|From: "Bob" <sip:bob@home.example>;tag=s1|To: <sip:bob@home.example>;tag=0123456789abcdef-3
|Call-ID: sub2|CSeq: 1 SUBSCRIBE|Contact: <sip:127.0.0.1:5060>|Expires: 59|Content-Length: 0|
at 1000 to 1|NOTIFY sip:bob@127.0.0.1:5071 SIP/2.0|Via: SIP/2.0/UDP 127.0.0.1:5060;branch=z9hG4bK0123456789abcdef-4|Max-Forwards: 70
|From: <sip:bob@home.example>;tag=0123456789abcdef-3|To: "Bob" <sip:bob@home.example>;tag=s1|Call-ID: sub2|CSeq: 1 NOTIFY|Contact: <sip:127.0.0.1:5060>
|Event: message-summary|Subscription-State: active;expires=59|Content-Type: application/simple-message-summary|Content-Length: 48||Messages-Waiting: no
|Voice-Message: 0/0 (0/0)
at 2000 to 1|SIP/2.0 200 OK|Via: SIP/2.0/UDP 127.0.0.1:5071;branch=z9hG4bKs3|From: "Alice" <sip:alice@home.example>;tag=s1
|To: <sip:alice@home.example>;tag=0123456789abcdef-1|Call-ID: sub1|CSeq: 2 SUBSCRIBE|Contact: <sip:127.0.0.1:5060>|Expires: 58|Content-Length: 0|
at 2000 to 1|NOTIFY sip:alice@127.0.0.1:5071 SIP/2.0|Via: SIP/2.0/UDP 127.0.0.1:5060;branch=z9hG4bK0123456789abcdef-5|Max-Forwards: 70
|From: <sip:alice@home.example>;tag=0123456789abcdef-1|To: "Alice" <sip:alice@home.example>;tag=s1|Call-ID: sub1|CSeq: 2 NOTIFY|Contact: <sip:127.0.0.1:5060>
|Event: message-summary|Subscription-State: active;expires=58|Content-Type: application/simple-message-summary|Content-Length: 48||Messages-Waiting: no
|Voice-Message: 0/0 (0/0)
at 60000 to 1|NOTIFY sip:bob@127.0.0.1:5071 SIP/2.0|Via: SIP/2.0/UDP 127.0.0.1:5060;branch=z9hG4bK0123456789abcdef-6|Max-Forwards: 70
|From: <sip:bob@home.example>;tag=0123456789abcdef-3|To: "Bob" <sip:bob@home.example>;tag=s1|Call-ID: sub2|CSeq: 2 NOTIFY|Contact: <sip:127.0.0.1:5060>
|Event: message-summary|Subscription-State: terminated;reason=timeout|Content-Type: application/simple-message-summary|Content-Length: 48||Messages-Waiting: no
|Voice-Message: 0/0 (0/0)
at 60000 to 1|NOTIFY sip:alice@127.0.0.1:5071 SIP/2.0|Via: SIP/2.0/UDP 127.0.0.1:5060;branch=z9hG4bK0123456789abcdef-7|Max-Forwards: 70
|From: <sip:alice@home.example>;tag=0123456789abcdef-1|To: "Alice" <sip:alice@home.example>;tag=s1|Call-ID: sub1|CSeq: 3 NOTIFY|Contact: <sip:127.0.0.1:5060>
|Event: message-summary|Subscription-State: terminated;reason=timeout|Content-Type: application/simple-message-summary|Content-Length: 48||Messages-Waiting: no
|Voice-Message: 0/0 (0/0)
~ Expires above what it can name, the greatest that it can, no number, and none.
=further:extension mwi;
at 0 peer 1|SUBSCRIBE sip:alice@home.example SIP/2.0|Via: SIP/2.0/UDP 127.0.0.1:5071;branch=z9hG4bKs1|Max-Forwards: 68|From: "Alice" <sip:alice@home.example>;tag=s1
|To: <sip:alice@home.example>|Call-ID: sub1|CSeq: 1 SUBSCRIBE|Contact: <sip:alice@127.0.0.1:5071>|P-Asserted-Identity: <sip:alice@home.example>|Event: message-summary
|Expires: 5000000000|Content-Length: 0|
at 10 peer 1|SIP/2.0 200 OK|Via: SIP/2.0/UDP 127.0.0.1:5060;branch=z9hG4bK0123456789abcdef-2|From: <sip:alice@home.example>;tag=0123456789abcdef-1
|To: "Alice" <sip:alice@home.example>;tag=s1|Call-ID: sub1|CSeq: 1 NOTIFY|Content-Length: 0|
at 20 peer 1|SUBSCRIBE sip:alice@home.example SIP/2.0|Via: SIP/2.0/UDP 127.0.0.1:5071;branch=z9hG4bKs2|Max-Forwards: 68|From: "Alice" <sip:alice@home.example>;tag=s1
|To: <sip:alice@home.example>|Call-ID: sub2|CSeq: 1 SUBSCRIBE|Contact: <sip:alice@127.0.0.1:5071>|P-Asserted-Identity: <sip:alice@home.example>|Event: message-summary
|Expires: 4294967295|Content-Length: 0|
at 30 peer 1|SIP/2.0 200 OK|Via: SIP/2.0/UDP 127.0.0.1:5060;branch=z9hG4bK0123456789abcdef-4|From: <sip:alice@home.example>;tag=0123456789abcdef-3
|To: "Alice" <sip:alice@home.example>;tag=s1|Call-ID: sub2|CSeq: 1 NOTIFY|Content-Length: 0|
at 40 peer 1|SUBSCRIBE sip:alice@home.example SIP/2.0|Via: SIP/2.0/UDP 127.0.0.1:5071;branch=z9hG4bKs3|Max-Forwards: 68|From: "Alice" <sip:alice@home.example>;tag=s1
|To: <sip:alice@home.example>|Call-ID: sub3|CSeq: 1 SUBSCRIBE|Contact: <sip:alice@127.0.0.1:5071>|P-Asserted-Identity: <sip:alice@home.example>|Event: message-summary
|Expires: soon|Content-Length: 0|
at 50 peer 1|SIP/2.0 200 OK|Via: SIP/2.0/UDP 127.0.0.1:5060;branch=z9hG4bK0123456789abcdef-6|From: <sip:alice@home.example>;tag=0123456789abcdef-5
|To: "Alice" <sip:alice@home.example>;tag=s1|Call-ID: sub3|CSeq: 1 NOTIFY|Content-Length: 0|
at 60 peer 1|SUBSCRIBE sip:alice@home.example SIP/2.0|Via: SIP/2.0/UDP 127.0.0.1:5071;branch=z9hG4bKs4|Max-Forwards: 68|From: "Alice" <sip:alice@home.example>;tag=s1
|To: <sip:alice@home.example>|Call-ID: sub4|CSeq: 1 SUBSCRIBE|Contact: <sip:alice@127.0.0.1:5071>|P-Asserted-Identity: <sip:alice@home.example>|Event: message-summary
|Content-Length: 0|
at 70 peer 1|SIP/2.0 200 OK|Via: SIP/2.0/UDP 127.0.0.1:5060;branch=z9hG4bK0123456789abcdef-8|From: <sip:alice@home.example>;tag=0123456789abcdef-7
|To: "Alice" <sip:alice@home.example>;tag=s1|Call-ID: sub4|CSeq: 1 NOTIFY|Content-Length: 0|
~ An hour, a day, and twice an hour.
at 0 to 1|SIP/2.0 200 OK|Via: SIP/2.0/UDP 127.0.0.1:5071;branch=z9hG4bKs1|From: "Alice" <sip:alice@home.example>;tag=s1
|To: <sip:alice@home.example>;tag=0123456789abcdef-1|Call-ID: sub1|CSeq: 1 SUBSCRIBE|Contact: <sip:127.0.0.1:5060>|Expires: 3600|Content-Length: 0|
at 0 to 1|NOTIFY sip:alice@127.0.0.1:5071 SIP/2.0|Via: SIP/2.0/UDP 127.0.0.1:5060;branch=z9hG4bK0123456789abcdef-2|Max-Forwards: 70
|From: <sip:alice@home.example>;tag=0123456789abcdef-1|To: "Alice" <sip:alice@home.example>;tag=s1|Call-ID: sub1|CSeq: 1 NOTIFY|Contact: <sip:127.0.0.1:5060>
|Event: message-summary|Subscription-State: active;expires=3600|Content-Type: application/simple-message-summary|Content-Length: 48||Messages-Waiting: no
|Voice-Message: 0/0 (0/0)
at 20 to 1|SIP/2.0 200 OK|Via: SIP/2.0/UDP 127.0.0.1:5071;branch=z9hG4bKs2|From: "Alice" <sip:alice@home.example>;tag=s1
|To: <sip:alice@home.example>;tag=0123456789abcdef-3|Call-ID: sub2|CSeq: 1 SUBSCRIBE|Contact: <sip:127.0.0.1:5060>|Expires: 86400|Content-Length: 0|
at 20 to 1|NOTIFY sip:alice@127.0.0.1:5071 SIP/2.0|Via: SIP/2.0/UDP 127.0.0.1:5060;branch=z9hG4bK0123456789abcdef-4|Max-Forwards: 70
|From: <sip:alice@home.example>;tag=0123456789abcdef-3|To: "Alice" <sip:alice@home.example>;tag=s1|Call-ID: sub2|CSeq: 1 NOTIFY|Contact: <sip:127.0.0.1:5060>
|Event: message-summary|Subscription-State: active;expires=86400|Content-Type: application/simple-message-summary|Content-Length: 48||Messages-Waiting: no
|Voice-Message: 0/0 (0/0)
at 40 to 1|SIP/2.0 200 OK|Via: SIP/2.0/UDP 127.0.0.1:5071;branch=z9hG4bKs3|From: "Alice" <sip:alice@home.example>;tag=s1
|To: <sip:alice@home.example>;tag=0123456789abcdef-5|Call-ID: sub3|CSeq: 1 SUBSCRIBE|Contact: <sip:127.0.0.1:5060>|Expires: 3600|Content-Length: 0|
at 40 to 1|NOTIFY sip:alice@127.0.0.1:5071 SIP/2.0|Via: SIP/2.0/UDP 127.0.0.1:5060;branch=z9hG4bK0123456789abcdef-6|Max-Forwards: 70
|From: <sip:alice@home.example>;tag=0123456789abcdef-5|To: "Alice" <sip:alice@home.example>;tag=s1|Call-ID: sub3|CSeq: 1 NOTIFY|Contact: <sip:127.0.0.1:5060>
|Event: message-summary|Subscription-State: active;expires=3600|Content-Type: application/simple-message-summary|Content-Length: 48||Messages-Waiting: no
|Voice-Message: 0/0 (0/0)
at 60 to 1|SIP/2.0 200 OK|Via: SIP/2.0/UDP 127.0.0.1:5071;branch=z9hG4bKs4|From: "Alice" <sip:alice@home.example>;tag=s1
|To: <sip:alice@home.example>;tag=0123456789abcdef-7|Call-ID: sub4|CSeq: 1 SUBSCRIBE|Contact: <sip:127.0.0.1:5060>|Expires: 3600|Content-Length: 0|
at 60 to 1|NOTIFY sip:alice@127.0.0.1:5071 SIP/2.0|Via: SIP/2.0/UDP 127.0.0.1:5060;branch=z9hG4bK0123456789abcdef-8|Max-Forwards: 70
|From: <sip:alice@home.example>;tag=0123456789abcdef-7|To: "Alice" <sip:alice@home.example>;tag=s1|Call-ID: sub4|CSeq: 1 NOTIFY|Contact: <sip:127.0.0.1:5060>
|Event: message-summary|Subscription-State: active;expires=3600|Content-Type: application/simple-message-summary|Content-Length: 48||Messages-Waiting: no
|Voice-Message: 0/0 (0/0)
~ SUBSCRIBEs without Contact: to another event, to this one, and to none.
=further:extension mwi;
at 0 peer 1|SUBSCRIBE sip:alice@home.example SIP/2.0|Via: SIP/2.0/UDP 127.0.0.1:5071;branch=z9hG4bKs1|Max-Forwards: 68|From: "Alice" <sip:alice@home.example>;tag=s1
|To: <sip:alice@home.example>|Call-ID: sub1|CSeq: 1 SUBSCRIBE|P-Asserted-Identity: <sip:alice@home.example>|Event: presence|Expires: 600|Content-Length: 0|
at 10 peer 1|SUBSCRIBE sip:alice@home.example SIP/2.0|Via: SIP/2.0/UDP 127.0.0.1:5071;branch=z9hG4bKs2|Max-Forwards: 68|From: "Alice" <sip:alice@home.example>;tag=s1
|To: <sip:alice@home.example>|Call-ID: sub2|CSeq: 1 SUBSCRIBE|P-Asserted-Identity: <sip:alice@home.example>|Event: message-summary|Expires: 600|Content-Length: 0|
at 20 peer 1|SUBSCRIBE sip:alice@home.example SIP/2.0|Via: SIP/2.0/UDP 127.0.0.1:5071;branch=z9hG4bKs3|Max-Forwards: 68|From: "Alice" <sip:alice@home.example>;tag=s1
|To: <sip:alice@home.example>|Call-ID: sub3|CSeq: 1 SUBSCRIBE|P-Asserted-Identity: <sip:alice@home.example>|Expires: 600|Content-Length: 0|
~ The event is looked at first.
at 0 to 1|SIP/2.0 489 Bad Event|Via: SIP/2.0/UDP 127.0.0.1:5071;branch=z9hG4bKs1|From: "Alice" <sip:alice@home.example>;tag=s1
|To: <sip:alice@home.example>;tag=0123456789abcdef-1|Call-ID: sub1|CSeq: 1 SUBSCRIBE|Allow-Events: message-summary|Content-Length: 0|
at 10 to 1|SIP/2.0 400 Bad Request|Via: SIP/2.0/UDP 127.0.0.1:5071;branch=z9hG4bKs2|From: "Alice" <sip:alice@home.example>;tag=s1
|To: <sip:alice@home.example>;tag=0123456789abcdef-2|Call-ID: sub2|CSeq: 1 SUBSCRIBE|Content-Length: 0|
at 20 to 1|SIP/2.0 489 Bad Event|Via: SIP/2.0/UDP 127.0.0.1:5071;branch=z9hG4bKs3|From: "Alice" <sip:alice@home.example>;tag=s1
|To: <sip:alice@home.example>;tag=0123456789abcdef-3|Call-ID: sub3|CSeq: 1 SUBSCRIBE|Allow-Events: message-summary|Content-Length: 0|
~ Alice subscribes from a peer that is not trusted.
=further:extension mwi;
at 0 peer 2|SUBSCRIBE sip:alice@home.example SIP/2.0|Via: SIP/2.0/UDP 127.0.0.1:5072;branch=z9hG4bKs1|Max-Forwards: 68|From: "Alice" <sip:alice@home.example>;tag=s1
|To: <sip:alice@home.example>|Call-ID: sub1|CSeq: 1 SUBSCRIBE|Contact: <sip:alice@127.0.0.1:5072>|P-Asserted-Identity: <sip:alice@home.example>|Event: message-summary
|Expires: 600|Content-Length: 0|
at 10 peer 2|SUBSCRIBE sip:alice@home.example SIP/2.0|Via: SIP/2.0/UDP 127.0.0.1:5072;branch=z9hG4bKs2|Max-Forwards: 68|From: "Alice" <sip:alice@home.example>;tag=s1
|To: <sip:alice@home.example>|Call-ID: sub2|CSeq: 1 SUBSCRIBE|Contact: <sip:alice@127.0.0.1:5072>|P-Asserted-Identity: <sip:alice@home.example>|Event: presence
|Expires: 600|Content-Length: 0|
~ 403, and nothing else.
at 0 to 2|SIP/2.0 403 Forbidden|Via: SIP/2.0/UDP 127.0.0.1:5072;branch=z9hG4bKs1|From: "Alice" <sip:alice@home.example>;tag=s1
|To: <sip:alice@home.example>;tag=0123456789abcdef-1|Call-ID: sub1|CSeq: 1 SUBSCRIBE|Content-Length: 0|
at 10 to 2|SIP/2.0 403 Forbidden|Via: SIP/2.0/UDP 127.0.0.1:5072;branch=z9hG4bKs2|From: "Alice" <sip:alice@home.example>;tag=s1
|To: <sip:alice@home.example>;tag=0123456789abcdef-2|Call-ID: sub2|CSeq: 1 SUBSCRIBE|Content-Length: 0|
~ An upload before anybody subscribes.
=further:extension mwi;
at 0 web|PUT /mailbox/1 HTTP/1.1|X-3GPP-Asserted-Identity: "sip:op@home.example"|Content-Type: application/toml|Content-Length: 8|
x6e6577203d20320a
at 10 peer 1|SUBSCRIBE sip:alice@home.example SIP/2.0|Via: SIP/2.0/UDP 127.0.0.1:5071;branch=z9hG4bKs1|Max-Forwards: 68|From: "Alice" <sip:alice@home.example>;tag=s1
|To: <sip:alice@home.example>|Call-ID: sub1|CSeq: 1 SUBSCRIBE|Contact: <sip:alice@127.0.0.1:5071>|P-Asserted-Identity: <sip:alice@home.example>|Event: message-summary
|Expires: 600|Content-Length: 0|
at 20 peer 1|SIP/2.0 200 OK|Via: SIP/2.0/UDP 127.0.0.1:5060;branch=z9hG4bK0123456789abcdef-2|From: <sip:alice@home.example>;tag=0123456789abcdef-1
|To: "Alice" <sip:alice@home.example>;tag=s1|Call-ID: sub1|CSeq: 1 NOTIFY|Content-Length: 0|
~ Whoever subscribes then is told it.
at 0 web|HTTP/1.1 200 OK|Content-Length: 0|Connection: close|
at 10 to 1|SIP/2.0 200 OK|Via: SIP/2.0/UDP 127.0.0.1:5071;branch=z9hG4bKs1|From: "Alice" <sip:alice@home.example>;tag=s1
|To: <sip:alice@home.example>;tag=0123456789abcdef-1|Call-ID: sub1|CSeq: 1 SUBSCRIBE|Contact: <sip:127.0.0.1:5060>|Expires: 600|Content-Length: 0|
at 10 to 1|NOTIFY sip:alice@127.0.0.1:5071 SIP/2.0|Via: SIP/2.0/UDP 127.0.0.1:5060;branch=z9hG4bK0123456789abcdef-2|Max-Forwards: 70
|From: <sip:alice@home.example>;tag=0123456789abcdef-1|To: "Alice" <sip:alice@home.example>;tag=s1|Call-ID: sub1|CSeq: 1 NOTIFY|Contact: <sip:127.0.0.1:5060>
|Event: message-summary|Subscription-State: active;expires=600|Content-Type: application/simple-message-summary|Content-Length: 49||Messages-Waiting: yes
|Voice-Message: 2/0 (0/0)
~ Uploads of the mailbox with each fault.
=further:extension mwi;
at 0 web|GET /mailbox/1 HTTP/1.1|X-3GPP-Asserted-Identity: "sip:op@home.example"|Content-Type: application/toml|Content-Length: 0|
x
at 10 web|PUT /mailbox/9 HTTP/1.1|Content-Type: application/toml|Content-Length: 8|
x6e6577203d20320a
at 20 web|PUT /mailbox/1 HTTP/1.1|X-3GPP-Asserted-Identity: "sip:alice@home.example"|Content-Type: application/toml|Content-Length: 8|
x6e6577203d20320a
at 30 web|PUT /mailbox/1 HTTP/1.1|Content-Length: 8|
x6e6577203d20320a
at 40 web|PUT /mailbox/1 HTTP/1.1|X-3GPP-Asserted-Identity: "sip:op@home.example"|Content-Type: text/plain|Content-Length: 8|
x6e6577203d20320a
at 50 web|PUT /mailbox/1 HTTP/1.1|X-3GPP-Asserted-Identity: "sip:op@home.example"|Content-Type: application/toml|Content-Length: 19|
x6672657368203d20310a6e6577203d202d310a
at 60 web|PUT /mailbox/1 HTTP/1.1|X-3GPP-Asserted-Identity: "sip:op@home.example"|Content-Type: application/toml|Content-Length: 4|
x6e65770a
at 70 web|PUT /mailbox/01 HTTP/1.1|X-3GPP-Asserted-Identity: "sip:op@home.example"|Content-Type: application/toml|Content-Length: 8|
x6e6577203d20320a
at 80 web|GET /mailbox/9 HTTP/1.1|X-3GPP-Asserted-Identity: "sip:op@home.example"|Content-Type: application/toml|Content-Length: 0|
x
at 90 web|PUT /mailbox/1 HTTP/1.1|X-3GPP-Asserted-Identity: "sip:op@home.example"|Content-Type: application/toml|Content-Length: 8|
x6e6577203d20320a
~ Each has its status: 405, 404, 403, 415, 409, and 200.
at 0 web|HTTP/1.1 405 Method Not Allowed|Allow: PUT|Content-Length: 0|Connection: close|
at 10 web|HTTP/1.1 404 Not Found|Content-Length: 0|Connection: close|
at 20 web|HTTP/1.1 403 Forbidden|Content-Length: 0|Connection: close|
at 30 web|HTTP/1.1 403 Forbidden|Content-Length: 0|Connection: close|
at 40 web|HTTP/1.1 415 Unsupported Media Type|Content-Length: 0|Connection: close|
at 50 web|HTTP/1.1 409 Conflict|Content-Type: text/plain|Content-Length: 14|Connection: close|
x756e6b6e6f776e2066726573680a
at 60 web|HTTP/1.1 409 Conflict|Content-Type: text/plain|Content-Length: 9|Connection: close|
x6e6f7420746f6d6c0a
at 70 web|HTTP/1.1 404 Not Found|Content-Length: 0|Connection: close|
at 80 web|HTTP/1.1 405 Method Not Allowed|Allow: PUT|Content-Length: 0|Connection: close|
at 90 web|HTTP/1.1 200 OK|Content-Length: 0|Connection: close|
~ The same where message waiting is off.
at 0 peer 1|SUBSCRIBE sip:alice@home.example SIP/2.0|Via: SIP/2.0/UDP 127.0.0.1:5071;branch=z9hG4bKs1|Max-Forwards: 68|From: "Alice" <sip:alice@home.example>;tag=s1
|To: <sip:alice@home.example>|Call-ID: sub1|CSeq: 1 SUBSCRIBE|Contact: <sip:alice@127.0.0.1:5071>|P-Asserted-Identity: <sip:alice@home.example>|Event: message-summary
|Content-Length: 0|
at 10 web|PUT /mailbox/1 HTTP/1.1|X-3GPP-Asserted-Identity: "sip:op@home.example"|Content-Type: application/toml|Content-Length: 8|
x6e6577203d20320a
~ The method is not known, and there is no such place.
at 0 to 1|SIP/2.0 405 Method Not Allowed|Via: SIP/2.0/UDP 127.0.0.1:5071;branch=z9hG4bKs1|From: "Alice" <sip:alice@home.example>;tag=s1
|To: <sip:alice@home.example>;tag=0123456789abcdef-1|Call-ID: sub1|CSeq: 1 SUBSCRIBE|Allow: INVITE, ACK, CANCEL, BYE, OPTIONS, REGISTER, REFER|Content-Length: 0|
at 10 web|HTTP/1.1 404 Not Found|Content-Length: 0|Connection: close|
"#;

#[test]
fn mailboxes(rt: HostRuntime) {
    assert_right(&rt, "MAILBOXES", wrong_run(rt.alloc(), MAILBOXES));
}
