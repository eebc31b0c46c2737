//! History-Info in the header table: in which messages a call's list is passed, and what of it to whom.

use crate::asserting::assert_right;
use crate::messages::drafts::{of_lines, request, write_lines_to};
use crate::messages::history::divert;
use mmtel_history::History;
use mmtel_message::Start;
use mmtel_test_tables::Transcript;
use mmtel_trust::{Facing, history_lines, shown};
use std::alloc::Global;

/// Header fields of a message that has a History-Info of its own, which is never passed.
const LINES: &[u8] = br#"From: <sip:alice@home.example>;tag=1
History-Info: <sip:al@far.example>;index=1
Supported: histinfo
Reason: SIP;cause=200
"#;

/// The list after bob's diversion to carol and hers to a voice mail, which hides her or not.
fn diverted(transcript: &mut Transcript, hide_last: bool) -> History {
    let mut history = History::new(transcript.alloc);
    divert(
        transcript,
        &mut history,
        b"sip:carol@home.example",
        302,
        false,
    );
    divert(
        transcript,
        &mut history,
        b"sip:vm@far.example",
        486,
        hide_last,
    );
    history
}

/// Writes what is passed of the message with this start line.
fn write_message(
    transcript: &mut Transcript,
    start: Start,
    history: &History,
    mask_all: bool,
    to_trusted: bool,
) {
    let message = of_lines(transcript, start, LINES);
    let facing = Facing {
        from_trusted: true,
        restricted: false,
        present: true,
        mask_all,
        reliable: false,
        timer: false,
    };
    let lines = shown(transcript.alloc, &message, history, &facing, to_trusted);
    drop(message);
    match lines {
        Ok(lines) => {
            write_lines_to(transcript, lines.items());
            drop(lines);
        }
        Err(_) => transcript.fail(),
    }
}

/// Writes what is passed of a request of this method.
fn write_request(
    transcript: &mut Transcript,
    method: &[u8],
    history: &History,
    mask_all: bool,
    to_trusted: bool,
) {
    let start = request(transcript, method);
    write_message(transcript, start, history, mask_all, to_trusted);
}

/// Writes what is passed of a response of this code.
fn write_response(transcript: &mut Transcript, code: u16, history: &History, to_trusted: bool) {
    let phrase = transcript.copy(b"Whatever");
    let start = Start::Status { code, phrase };
    write_message(transcript, start, history, false, to_trusted);
}

/// The list in an INVITE, with carol hidden: to a trusted peer, to an untrusted one, and to both where the opening INVITE requests that all be hidden.
fn write_list(transcript: &mut Transcript) {
    let history = diverted(transcript, true);
    write_request(transcript, b"INVITE", &history, false, true);
    write_request(transcript, b"INVITE", &history, false, false);
    write_request(transcript, b"INVITE", &history, true, false);
    write_request(transcript, b"INVITE", &history, true, true);
    drop(history);
}

const LIST: &[u8] = br#"History-Info: <sip:bob@home.example>;index=1
History-Info: <sip:carol@home.example;cause=302?Privacy=history>;index=1.1
History-Info: <sip:vm@far.example;cause=486>;index=1.1.1
Supported: histinfo
Reason: SIP;cause=200
#
History-Info: <sip:bob@home.example>;index=1
History-Info: <sip:anonymous@anonymous.invalid;cause=302>;index=1.1
History-Info: <sip:vm@far.example;cause=486>;index=1.1.1
Supported: histinfo
Reason: SIP;cause=200
#
History-Info: <sip:anonymous@anonymous.invalid>;index=1
History-Info: <sip:anonymous@anonymous.invalid;cause=302>;index=1.1
History-Info: <sip:anonymous@anonymous.invalid;cause=486>;index=1.1.1
Supported: histinfo
Reason: SIP;cause=200
#
History-Info: <sip:bob@home.example>;index=1
History-Info: <sip:carol@home.example;cause=302?Privacy=history>;index=1.1
History-Info: <sip:vm@far.example;cause=486>;index=1.1.1
Supported: histinfo
Reason: SIP;cause=200
#
"#;

/// A 181 that reveals neither who diverted nor to whom: passed on to a trusted peer and to an untrusted one, and of the server's own.
fn write_hidden(transcript: &mut Transcript, hidden: &History) {
    write_response(transcript, 181, hidden, true);
    write_response(transcript, 181, hidden, false);
    match history_lines(transcript.alloc, hidden, false, false) {
        Ok(lines) => {
            write_lines_to(transcript, lines.items());
            drop(lines);
        }
        Err(_) => transcript.fail(),
    }
}

/// Those three, and the INVITE after them, in which the marks of the 181 are not present.
/// Then requests other than INVITE, and responses other than 181, which have no list; methods are compared byte for byte.
fn write_elsewhere(transcript: &mut Transcript) {
    let history = diverted(transcript, false);
    match history.history_for_caller(transcript.alloc, true, true) {
        Ok(hidden) => {
            write_hidden(transcript, &hidden);
            drop(hidden);
        }
        Err(_) => transcript.fail(),
    }
    write_request(transcript, b"INVITE", &history, false, false);
    write_request(transcript, b"BYE", &history, false, true);
    write_request(transcript, b"ACK", &history, false, false);
    write_request(transcript, b"Invite", &history, false, true);
    write_response(transcript, 180, &history, true);
    write_response(transcript, 200, &history, true);
    drop(history);
}

const ELSEWHERE: &[u8] = br#"History-Info: <sip:bob@home.example>;index=1
History-Info: <sip:carol@home.example;cause=302?Privacy=history>;index=1.1
History-Info: <sip:vm@far.example;cause=486?Privacy=history>;index=1.1.1
Supported: histinfo
Reason: SIP;cause=200
#
History-Info: <sip:bob@home.example>;index=1
History-Info: <sip:anonymous@anonymous.invalid;cause=302>;index=1.1
History-Info: <sip:anonymous@anonymous.invalid;cause=486>;index=1.1.1
Supported: histinfo
Reason: SIP;cause=200
#
History-Info: <sip:bob@home.example>;index=1
History-Info: <sip:anonymous@anonymous.invalid;cause=302>;index=1.1
History-Info: <sip:anonymous@anonymous.invalid;cause=486>;index=1.1.1
#
History-Info: <sip:bob@home.example>;index=1
History-Info: <sip:carol@home.example;cause=302>;index=1.1
History-Info: <sip:vm@far.example;cause=486>;index=1.1.1
Supported: histinfo
Reason: SIP;cause=200
#
Supported: histinfo
Reason: SIP;cause=200
#
Supported: histinfo
Reason: SIP;cause=200
#
Supported: histinfo
Reason: SIP;cause=200
#
Supported: histinfo
Reason: SIP;cause=200
#
Supported: histinfo
Reason: SIP;cause=200
#
"#;

/// The number of the first line that differs; 0 where none does.
fn wrong(alloc: Global, tell: u8, wanted: &[u8]) -> usize {
    let mut transcript = Transcript::new(alloc);
    match tell {
        b'l' => write_list(&mut transcript),
        _ => write_elsewhere(&mut transcript),
    }
    transcript.wrong_line(wanted)
}

#[test]
fn shows_the_list(rt: HostRuntime) {
    assert_right(&rt, "LIST", wrong(rt.alloc(), b'l', LIST));
    assert_right(&rt, "ELSEWHERE", wrong(rt.alloc(), b'e', ELSEWHERE));
}
