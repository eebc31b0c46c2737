//! Addresses, causes, privacy words and limits.

use crate::asserting::assert_right;
use mmtel_test_tables::Transcript;
use mmtel_types::{Addr, Cause, PrivacySet, limits};
use std::alloc::Global;

/// The cause of this number, in the order in which they are declared; those with a status or a flag are listed twice.
fn cause(number: u8) -> Cause {
    match number {
        0 => Cause::OutgoingBarred,
        1 => Cause::IncomingBarred,
        2 => Cause::AnonymousRejected,
        3 => Cause::NotRegistered,
        4 => Cause::NetworkBusy,
        5 => Cause::NoReply,
        6 => Cause::TooManyDiversions { busy: true },
        7 => Cause::TooManyDiversions { busy: false },
        8 => Cause::Unreachable(408),
        9 => Cause::Unreachable(503),
        10 => Cause::Relayed(486),
        11 => Cause::Relayed(600),
        12 => Cause::Cancelled,
        13 => Cause::NoAccount,
        14 => Cause::NoRoute,
        15 => Cause::BadScheme,
        16 => Cause::Hops,
        17 => Cause::Extension,
        18 => Cause::Critical,
        19 => Cause::Merged,
        20 => Cause::Full,
        21 => Cause::Ended,
        _ => Cause::Unacknowledged,
    }
}

/// Each cause's word and status: RFC 3261 §21 has the reason phrases of the statuses, and RFC 5079 that of 433.
const CAUSES: &[u8] = b"outgoing-barred 603
incoming-barred 603
anonymous 433
not-registered 480
network-busy 486
no-reply 480
too-many-diversions 486
too-many-diversions 480
unreachable 408
unreachable 503
relayed 486
relayed 600
cancelled 487
no-account 404
no-route 404
bad-scheme 416
hops 483
extension 420
critical 500
merged 482
full 503
ended 0
unacknowledged 500
";

fn wrong_cause(alloc: Global) -> usize {
    let mut transcript = Transcript::new(alloc);
    for number in 0..23 {
        let cause = cause(number);
        transcript.add(cause.word().as_bytes());
        transcript.add_spaced_number(u64::from(cause.status()));
        transcript.add(b"\n");
    }
    transcript.wrong_line(CAUSES)
}

/// The privacy without any Privacy header field: nothing.
const NOTHING: PrivacySet = PrivacySet {
    header: false,
    session: false,
    user: false,
    none: false,
    critical: false,
    id: false,
    history: false,
};

/// An address of a documentation network.
fn addr(last: u8, port: u16) -> Addr {
    Addr {
        ip: [192, 0, 2, last],
        port,
    }
}

/// Writes whether two addresses are the same.
fn write_same(transcript: &mut Transcript, one: Addr, other: Addr) {
    transcript.add_if(one.is_same(other), b"same\n", b"another\n");
}

/// The privacy without any Privacy header field; and addresses: the same has the same four numbers and the same port.
fn wrong_value(alloc: Global) -> usize {
    let mut transcript = Transcript::new(alloc);
    transcript.add_if(
        PrivacySet::default() == NOTHING,
        b"nothing\n",
        b"something\n",
    );
    write_same(&mut transcript, addr(1, 5060), addr(1, 5060));
    write_same(&mut transcript, addr(1, 5060), addr(2, 5060));
    write_same(&mut transcript, addr(1, 5060), addr(1, 5061));
    transcript.wrong_line(b"nothing\nsame\nanother\nanother\n")
}

#[test]
fn causes_privacy_and_addresses(rt: HostRuntime) {
    assert_right(&rt, "CAUSES", wrong_cause(rt.alloc()));
    assert_right(&rt, "privacy and addresses", wrong_value(rt.alloc()));
}

// The limits that the documents promise. The last moment is in a contract.
const _: () = prove!(limits::DATAGRAM_BYTES == 16_384);

const _: () = prove!(limits::HEADER_LINES == 128);

const _: () = prove!(limits::HISTORY_VALUES == 32);

const _: () = prove!(limits::SERVER_TRANSACTIONS == 16_384);

const _: () = prove!(limits::CALLS == 4_096);

const _: () = prove!(limits::CONFERENCES == 1_024);

const _: () = prove!(limits::PARTICIPANTS == 32);

const _: () = prove!(limits::RULES == 64);

const _: () = prove!(limits::RULE_IDENTITIES == 64);

const _: () = prove!(limits::TARGET_BYTES == 256);

const _: () = prove!(limits::SHEET_BYTES == 65_536);

const _: () = prove!(limits::WEB_HEAD_BYTES == 8_192);

const _: () = prove!(limits::WEB_BODY_BYTES == 65_536);

const _: () = prove!(limits::DIVERSIONS_DEFAULT == 5);

const _: () = prove!(limits::MAX_DIVERSIONS == 16);

const _: () = prove!(limits::NO_REPLY_SECONDS_DEFAULT == 20);

const _: () = prove!(limits::MIN_NO_REPLY_SECONDS == 5);

const _: () = prove!(limits::MAX_NO_REPLY_SECONDS == 180);

const _: () = prove!(limits::PEERS == 1_024);

const _: () = prove!(limits::ROUTES == 4_096);

const _: () = prove!(limits::ACCOUNTS == 10_000);

const _: () = prove!(limits::ACCOUNT_IDENTITIES == 8);
