//! Mailboxes and their subscribers: counts as an operator uploads them, what subscribers are notified of, and the states of subscriptions.
ghost use Rattle.std.specs.Prelude.{◌≤◌};
ghost use Rattle.mmtel_types.specs.Moments.{last_moment};

use crate::asserting::assert_right;
use crate::composing::legs::{SIP, moment, write_meter};
use crate::messages::drafts::{message_of_lines, write_message};
use mmtel_base::NoMemory;
use mmtel_charging::Meter;
use mmtel_leg::{CallerLeg, DialogueFault, Ended, Standing};
use mmtel_mwi::{
    Boxes, Counts, SubFault, SubNo, SubscribeRequest, granted_seconds, read_counts, refusal,
    summary,
};
use mmtel_sheet_grammar::SheetFault;
use mmtel_test_tables::Transcript;
use mmtel_types::{Account, Moment, Peer};
use std::alloc::Global;

/// Documents, each on a line with `;` for the ends of its lines, and the notification of their counts, or their first fault.
const DOCUMENTS: &[u8] = br##"> 
Messages-Waiting: no
Voice-Message: 0/0 (0/0)
> new = 2;old = 8;urgent-old = 2;
Messages-Waiting: yes
Voice-Message: 2/8 (0/2)
> urgent-new = 2;new = 2;
Messages-Waiting: yes
Voice-Message: 2/0 (2/0)
> old = 999999999;
Messages-Waiting: no
Voice-Message: 0/999999999 (0/0)
> new = 2;urgent-new = 3;
wrong urgent-new
> urgent-old = 1;
wrong urgent-old
> new = 1000000000;
wrong new
> new = -1;
wrong new
> old = "8";
wrong old
> new = 2.0;
wrong new
> fresh = 1;new = -1;
unknown fresh
> new = -1;zeal = 1;
wrong new
> new;
not toml
"##;

fn write_counts(transcript: &mut Transcript, counts: &Counts) {
    let text = summary(transcript.alloc, counts);
    let text = transcript.text_or_fail(text);
    transcript.add_without_cr(text.bytes());
    drop(text);
}

fn write_fault(transcript: &mut Transcript, fault: &SheetFault) {
    match fault {
        SheetFault::NotToml => transcript.add_line(b"not toml"),
        SheetFault::Unknown { key } => {
            transcript.add(b"unknown ");
            transcript.add_line(key.bytes());
        }
        SheetFault::Wrong { key } => {
            transcript.add(b"wrong ");
            transcript.add_line(key.bytes());
        }
        SheetFault::Many { key, limit: _ } => {
            transcript.add(b"many ");
            transcript.add_line(key.bytes());
        }
        SheetFault::NoMemory => transcript.fail(),
    }
}

fn write_document(transcript: &mut Transcript, document: &[u8]) {
    transcript.add(b"> ");
    transcript.add_line(document);
    let mut text = Transcript::new(transcript.alloc);
    text.add_ended(b';', document, b"\n");
    let read = read_counts(transcript.alloc, text.whole());
    drop(text);
    match read {
        Ok(counts) => write_counts(transcript, &counts),
        Err(fault) => {
            write_fault(transcript, &fault);
            drop(fault);
        }
    }
}

fn wrong_documents(alloc: Global) -> usize {
    let mut transcript = Transcript::new(alloc);
    write_document(&mut transcript, b"");
    write_document(&mut transcript, b"new = 2;old = 8;urgent-old = 2;");
    write_document(&mut transcript, b"urgent-new = 2;new = 2;");
    write_document(&mut transcript, b"old = 999999999;");
    write_document(&mut transcript, b"new = 2;urgent-new = 3;");
    write_document(&mut transcript, b"urgent-old = 1;");
    write_document(&mut transcript, b"new = 1000000000;");
    write_document(&mut transcript, b"new = -1;");
    write_document(&mut transcript, b"old = \"8\";");
    write_document(&mut transcript, b"new = 2.0;");
    write_document(&mut transcript, b"fresh = 1;new = -1;");
    write_document(&mut transcript, b"new = -1;zeal = 1;");
    write_document(&mut transcript, b"new;");
    transcript.wrong_line(DOCUMENTS)
}

#[test]
fn documents(rt: HostRuntime) {
    assert_right(&rt, "documents", wrong_documents(rt.alloc()));
}

/// Alice subscribes to her mailbox.
const SUBSCRIBE: &[u8] = br##"SUBSCRIBE sip:alice@home.example SIP/2.0
Via: SIP/2.0/UDP 127.0.0.1:5071;branch=z9hG4bKs1
Record-Route: <sip:p1.home.example;lr>
Max-Forwards: 68
From: "Alice" <sip:alice@home.example>;tag=s1
To: <sip:alice@home.example>
Call-ID: sub1
CSeq: 5 SUBSCRIBE
Contact: <sip:alice@127.0.0.1:5071>
Event: message-summary
Expires: 600
Content-Length: 0

"##;

/// A late request of hers.
const LATE: &[u8] = br##"SUBSCRIBE sip:127.0.0.1:5060 SIP/2.0
Via: SIP/2.0/UDP 127.0.0.1:5071;branch=z9hG4bKs2
Max-Forwards: 68
From: "Alice" <sip:alice@home.example>;tag=s1
To: <sip:alice@home.example>;tag=0123456789abcdef-1
Call-ID: sub1
CSeq: 4 SUBSCRIBE
Contact: <sip:alice@127.0.0.1:5071>
Event: message-summary
Content-Length: 0

"##;

/// The state of her subscription, and of another one to the same mailbox.
const SUBSCRIPTIONS: &[u8] = br##"subscription 1
subscription 2
found 1
peer 1
set by 1
NOTIFY sip:alice@127.0.0.1:5071 SIP/2.0
Via: SIP/2.0/UDP 127.0.0.1:5060;branch=z9hG4bK0123456789abcdef-2
Route: <sip:p1.home.example;lr>
Max-Forwards: 70
From: <sip:alice@home.example>;tag=0123456789abcdef-1
To: "Alice" <sip:alice@home.example>;tag=s1
Call-ID: sub1
CSeq: 1 NOTIFY
Contact: <sip:127.0.0.1:5060>
Event: message-summary
Subscription-State: active;expires=600
Content-Type: application/simple-message-summary
Content-Length: 48

Messages-Waiting: no
Voice-Message: 0/0 (0/0)
#
subscribers 1 2
old
refreshed
set by 2
NOTIFY sip:alice@127.0.0.1:5071 SIP/2.0
Via: SIP/2.0/UDP 127.0.0.1:5060;branch=z9hG4bK0123456789abcdef-3
Route: <sip:p1.home.example;lr>
Max-Forwards: 70
From: <sip:alice@home.example>;tag=0123456789abcdef-1
To: "Alice" <sip:alice@home.example>;tag=s1
Call-ID: sub1
CSeq: 2 NOTIFY
Contact: <sip:127.0.0.1:5060>
Event: message-summary
Subscription-State: active;expires=599
Content-Type: application/simple-message-summary
Content-Length: 49

Messages-Waiting: yes
Voice-Message: 2/8 (0/2)
#
waits
answered
waits
refused
gone
no NOTIFY
subscribers 2
"##;

/// The first of all moments that tests name, so many milliseconds after 1970.
fn keep_leg(transcript: &mut Transcript, leg: CallerLeg<Standing>) {
    let Ended { meter } = leg.leave();
    write_meter(transcript, meter);
}

/// Subscribes with the leg, and writes the number of the subscription.
fn subscribe_with(
    transcript: &mut Transcript,
    boxes: &mut Boxes,
    opened: Result<CallerLeg<Standing>, (Option<Meter>, NoMemory)>,
    until: Moment,
) {
    match opened {
        Ok(leg) => match boxes.subscribe(Account(1), leg, until) {
            Ok(sub) => {
                transcript.add(b"subscription ");
                transcript.add_number(sub.0);
                transcript.add(b"\n");
            }
            Err((leg, SubFault::Full)) => {
                transcript.add(b"full\n");
                keep_leg(transcript, leg);
            }
            Err((leg, SubFault::NoMemory)) => {
                transcript.fail();
                keep_leg(transcript, leg);
            }
        },
        Err((meter, _)) => {
            transcript.fail();
            write_meter(transcript, meter);
        }
    }
}

/// Subscribes by the SUBSCRIBE of these header fields, where the server responds with this tag.
fn subscribe(transcript: &mut Transcript, boxes: &mut Boxes, tag: &[u8], until: Moment) {
    if let Some(message) = message_of_lines(transcript, SUBSCRIBE) {
        let tag = transcript.copy(tag);
        let opened = CallerLeg::<Standing>::open(transcript.alloc, Peer(1), &message, tag, None);
        drop(message);
        subscribe_with(transcript, boxes, opened, until);
    }
}

fn write_number(transcript: &mut Transcript, word: &[u8], number: Option<u64>) {
    match number {
        None => transcript.add(b"gone\n"),
        Some(number) => {
            transcript.add(word);
            transcript.add_number(number);
            transcript.add(b"\n");
        }
    }
}

/// Writes which subscription has Alice's dialog, and its values.
fn write_found(transcript: &mut Transcript, boxes: &Boxes) {
    let found = boxes.find(b"sub1", b"0123456789abcdef-1", b"s1");
    write_number(transcript, b"found ", found.map(|sub| sub.0));
    let peer = boxes.peer(SubNo(1));
    write_number(transcript, b"peer ", peer.map(|peer| u64::from(peer.0)));
    write_number(transcript, b"set by ", boxes.set_by(SubNo(1)));
}

/// Writes the NOTIFY with this branch.
fn write_notice(transcript: &mut Transcript, boxes: &mut Boxes, branch: &[u8], now: Moment) {
    let branch = transcript.copy(branch);
    let notice = boxes.tell(transcript.alloc, SubNo(1), false, &branch, now);
    drop(branch);
    match transcript.value_or_fail(notice) {
        None => {}
        Some(None) => transcript.add(b"no NOTIFY\n"),
        Some(Some(message)) => {
            write_message(transcript, &message);
            drop(message);
            transcript.add(b"#\n");
        }
    }
}

fn write_subscribers(transcript: &mut Transcript, boxes: &Boxes) {
    let subscribers = boxes.subscribers(transcript.alloc, Account(1));
    if let Some(subscribers) = transcript.value_or_fail(subscribers) {
        transcript.add(b"subscribers");
        for sub in subscribers.items() {
            transcript.add_spaced_number(sub.0);
        }
        transcript.add(b"\n");
        drop(subscribers);
    }
}

fn write_ended(transcript: &mut Transcript, ended: Option<Ended>, word: &[u8]) {
    match ended {
        None => transcript.add(word),
        Some(Ended { meter }) => {
            transcript.add(b"refused\n");
            write_meter(transcript, meter);
        }
    }
}

/// Writes the result of a late request.
fn write_late(transcript: &mut Transcript, boxes: &mut Boxes) {
    if let Some(message) = message_of_lines(transcript, LATE) {
        if boxes.set_by(SubNo(1)).is_some() {
            match boxes.heard(SubNo(1), &message) {
                Err(DialogueFault::OldCSeq { .. }) => transcript.add(b"old\n"),
                _ => transcript.add(b"heard\n"),
            }
        }
        drop(message);
    }
}

/// An upload, and a SUBSCRIBE that refreshes the subscription.
fn write_changes(transcript: &mut Transcript, boxes: &mut Boxes) {
    let counts = Counts {
        fresh: 2,
        old: 8,
        urgent_fresh: 0,
        urgent_old: 2,
    };
    let put = boxes.put(Account(1), counts);
    transcript.fail_unless(put.is_ok());
    let refreshed = boxes.refresh(SubNo(1), moment(601_000));
    transcript.add_if(refreshed, b"refreshed\n", b"gone\n");
    write_number(transcript, b"set by ", boxes.set_by(SubNo(1)));
}

/// The responses to both NOTIFYs: the second one refuses.
fn write_responses(transcript: &mut Transcript, boxes: &mut Boxes) {
    let first: &[u8] = b"0123456789abcdef-2";
    let second: &[u8] = b"0123456789abcdef-3";
    transcript.add_if(boxes.is_pending(first), b"waits\n", b"waits for nothing\n");
    let ended = boxes.answered(first, 200);
    write_ended(transcript, ended, b"answered\n");
    transcript.add_if(boxes.is_pending(second), b"waits\n", b"waits for nothing\n");
    let ended = boxes.answered(second, 481);
    write_ended(transcript, ended, b"answered\n");
    write_number(transcript, b"set by ", boxes.set_by(SubNo(1)));
}

fn wrong_subscriptions(alloc: Global) -> usize {
    let mut transcript = Transcript::new(alloc);
    let mut boxes = Boxes::new(alloc, SIP);
    subscribe(
        &mut transcript,
        &mut boxes,
        b"0123456789abcdef-1",
        moment(600_000),
    );
    subscribe(
        &mut transcript,
        &mut boxes,
        b"0123456789abcdef-9",
        moment(600_000),
    );
    write_found(&mut transcript, &boxes);
    write_notice(
        &mut transcript,
        &mut boxes,
        b"0123456789abcdef-2",
        moment(0),
    );
    write_subscribers(&mut transcript, &boxes);
    write_late(&mut transcript, &mut boxes);
    write_changes(&mut transcript, &mut boxes);
    write_notice(
        &mut transcript,
        &mut boxes,
        b"0123456789abcdef-3",
        moment(1_001),
    );
    write_responses(&mut transcript, &mut boxes);
    write_notice(
        &mut transcript,
        &mut boxes,
        b"0123456789abcdef-4",
        moment(2_000),
    );
    write_subscribers(&mut transcript, &boxes);
    boxes.give_up();
    transcript.wrong_line(SUBSCRIPTIONS)
}

#[test]
fn subscriptions(rt: HostRuntime) {
    assert_right(&rt, "subscriptions", wrong_subscriptions(rt.alloc()));
}

/// Why a SUBSCRIBE is refused, the first that applies; and for how many seconds one is granted, by its Expires.
const REFUSALS: &[u8] = br##"403
403
403
489
489
400
none
none
3600
600
86400
0
"##;

fn write_refusal(
    transcript: &mut Transcript,
    trusted: bool,
    within: bool,
    mailbox: u32,
    event: &[u8],
    has_contact: bool,
) {
    let asks = SubscribeRequest {
        trusted,
        in_dialog: within,
        sender: Some(Account(1)),
        mailbox: Some(Account(mailbox)),
        event: Some(event),
        has_contact,
    };
    match refusal(&asks) {
        None => transcript.add(b"none\n"),
        Some(code) => {
            transcript.add_number(u64::from(code));
            transcript.add(b"\n");
        }
    }
}

fn write_granted(transcript: &mut Transcript, expires: Option<u64>) {
    transcript.add_number(granted_seconds(expires));
    transcript.add(b"\n");
}

fn wrong_refusals(alloc: Global) -> usize {
    let mut transcript = Transcript::new(alloc);
    write_refusal(&mut transcript, false, false, 1, b"message-summary", true);
    write_refusal(&mut transcript, false, true, 2, b"presence", false);
    write_refusal(&mut transcript, true, false, 2, b"presence", false);
    write_refusal(&mut transcript, true, false, 1, b"presence", false);
    write_refusal(
        &mut transcript,
        true,
        false,
        1,
        b"message-summary;id=1",
        true,
    );
    write_refusal(&mut transcript, true, false, 1, b"message-summary", false);
    write_refusal(&mut transcript, true, false, 1, b"message-summary", true);
    write_refusal(&mut transcript, true, true, 2, b"message-summary", true);
    write_granted(&mut transcript, None);
    write_granted(&mut transcript, Some(600));
    write_granted(&mut transcript, Some(4_294_967_295));
    write_granted(&mut transcript, Some(0));
    transcript.wrong_line(REFUSALS)
}

#[test]
fn refusals(rt: HostRuntime) {
    assert_right(&rt, "refusals", wrong_refusals(rt.alloc()));
}
