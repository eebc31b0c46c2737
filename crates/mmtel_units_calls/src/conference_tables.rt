//! Tables that are played: what is received and done, a line each after `> `, which begins with the moment, and under it what is sent and how many places of the first three
//! conferences are taken; what is looked up, after `? `.
//!
//! Transactions are numbered from 0, servers and clients together.
//! What is received: `say PEER CALL-ID LOCAL REMOTE METHOD CSEQ MORE` in a dialog, where the participant that has it is written first, `press ROOM SEAT PEER CALL-ID LOCAL REMOTE
//! METHOD CSEQ MORE` of a participant, whether it has the dialog or not, `answer TRANSACTION TAG STATUS`, `silent TRANSACTION`, `due ROOM SEAT WORD NUMBER`, `over TRANSACTION`.
//! Other operations: see `deeds`; `fill COUNT NUMBER WORDS` does so many times from moment 0 on what `WORDS 2 NUMBER x@far.example` means, with ascending numbers, and nothing of
//! it is written. Where a table begins with `# ` messages are written whole.
//! What is looked up: `find CALL-ID LOCAL REMOTE`, `rows`.

use crate::conference_operations::is_done;
use crate::environments::{
    SIP, TestEnvironment, first_moment, idle_environment, is, moment, number, peer_of, word,
};
use crate::messages::{Name, named, offer, request_in, response};
use crate::step_reports::{Style, TestTraffic, branch_and_method, write_emits, write_rows};
use mmtel_base::{skip_text, split_once_at};
use mmtel_focus::{RoomSignal, Rooms};
use mmtel_sdp::Mixer;
use mmtel_test_tables::Transcript;
use mmtel_transaction::{RoomWord, TKey};
use mmtel_types::{Moment, RoomNo};
use std::alloc::Global;

/// Writes how many places of the first three conferences are taken.
fn write_participants(transcript: &mut Transcript, rooms: &Rooms) {
    transcript.add(b"seats");
    for number in 1..4 {
        transcript.add(b" ");
        transcript.add_number(u64::from(rooms.seats(RoomNo(number))));
    }
    transcript.add(b"\n");
}

/// Writes a conference and a participant, or none.
fn write_place(transcript: &mut Transcript, place: Option<(RoomNo, u64)>) {
    match place {
        None => transcript.add_line(b"-> none"),
        Some((room, seat)) => {
            transcript.add(b"-> room ");
            transcript.add_number(room.0);
            transcript.add(b" seat ");
            transcript.add_number(seat);
            transcript.add(b"\n");
        }
    }
}

/// A request of a participant, or its ACK, of this method, number and more: the offer of an INVITE, or the Refer-To of a REFER.
fn asked(
    transcript: &mut Transcript,
    wire: &mut TestTraffic,
    place: (RoomNo, u64),
    peer: u16,
    name: Name<'_>,
    words: &[u8],
) -> RoomSignal {
    let (method, rest) = word(words);
    let (cseq, more) = word(rest);
    let (room, seat) = place;
    let key = wire.key_of(method);
    let mut further = Transcript::new(transcript.alloc);
    if is(method, b"REFER") && !more.is_empty() {
        further.add(b"Refer-To: ");
        further.add(more);
    } else {
        further.add(offer(more));
    }
    let request = request_in(transcript, peer, key, name, method, cseq, further.bytes());
    drop(further);
    if is(method, b"ACK") {
        return RoomSignal::Ack {
            room,
            seat,
            ack: request,
        };
    }
    RoomSignal::Request {
        room,
        seat,
        key: TKey(key),
        request,
    }
}

/// A request in a dialog is of the participant that is found by it; where none is, it opens a transaction nevertheless.
fn say(
    transcript: &mut Transcript,
    wire: &mut TestTraffic,
    rooms: &Rooms,
    words: &[u8],
) -> Option<RoomSignal> {
    let (peer, rest) = word(words);
    let (name, rest) = named(rest);
    let place = rooms.find(name.call_id, name.local, name.remote);
    write_place(transcript, place);
    match place {
        None => {
            wire.open();
            None
        }
        Some(place) => Some(asked(transcript, wire, place, peer_of(peer), name, rest)),
    }
}

fn press(transcript: &mut Transcript, wire: &mut TestTraffic, words: &[u8]) -> RoomSignal {
    let (room, rest) = word(words);
    let (seat, rest) = word(rest);
    let (peer, rest) = word(rest);
    let (name, rest) = named(rest);
    let room = RoomNo(number(transcript, room));
    let seat = number(transcript, seat);
    asked(transcript, wire, (room, seat), peer_of(peer), name, rest)
}

fn answer(transcript: &mut Transcript, wire: &TestTraffic, words: &[u8]) -> Option<RoomSignal> {
    let (key, rest) = word(words);
    let key = number(transcript, key);
    let sent = wire.sent_in(key)?;
    let response = response(transcript, &sent.message, sent.peer, rest, b"");
    Some(RoomSignal::Answer {
        key: TKey(key),
        response,
    })
}

/// The transaction of what was sent timed out.
fn silent(transcript: &mut Transcript, wire: &TestTraffic, words: &[u8]) -> Option<RoomSignal> {
    let key = number(transcript, words);
    let (branch, method) = branch_and_method(wire.sent_in(key)?);
    Some(RoomSignal::Silent {
        branch: transcript.copy(branch),
        method: transcript.copy(method),
    })
}

fn due(transcript: &mut Transcript, words: &[u8]) -> RoomSignal {
    let (room, rest) = word(words);
    let (seat, rest) = word(rest);
    let (kind, digits) = word(rest);
    let number_of = number(transcript, digits);
    let what = if is(kind, b"cap") {
        RoomWord::Cap(number_of)
    } else {
        RoomWord::NoAck(number_of)
    };
    RoomSignal::Due {
        room: RoomNo(number(transcript, room)),
        seat: number(transcript, seat),
        what,
    }
}

fn signal(
    transcript: &mut Transcript,
    wire: &mut TestTraffic,
    rooms: &Rooms,
    words: &[u8],
) -> Option<RoomSignal> {
    let (kind, rest) = word(words);
    if is(kind, b"say") {
        return say(transcript, wire, rooms, rest);
    }
    if is(kind, b"press") {
        return Some(press(transcript, wire, rest));
    }
    if is(kind, b"answer") {
        return answer(transcript, wire, rest);
    }
    if is(kind, b"silent") {
        return silent(transcript, wire, rest);
    }
    if is(kind, b"due") {
        return Some(due(transcript, rest));
    }
    if is(kind, b"over") {
        return Some(RoomSignal::Over {
            key: TKey(number(transcript, rest)),
        });
    }
    transcript.fail();
    None
}

/// The conferences receive a signal.
fn receive(
    transcript: &mut Transcript,
    world: &TestEnvironment,
    wire: &mut TestTraffic,
    rooms: &mut Rooms,
    now: Moment,
    signal: RoomSignal,
) {
    let heard = rooms.signal(
        transcript.alloc,
        signal,
        &world.peers,
        &world.accounts,
        &mut wire.desk.tokens,
        now,
    );
    if let Some(emits) = transcript.value_or_fail(heard) {
        write_emits(transcript, wire, emits);
    }
}

/// The result at a moment.
fn play_line(
    transcript: &mut Transcript,
    world: &TestEnvironment,
    wire: &mut TestTraffic,
    rooms: &mut Rooms,
    line: &[u8],
) {
    let (digits, words) = word(line);
    let now = moment(transcript, digits);
    if is_done(transcript, world, wire, rooms, now, words) {
        return write_participants(transcript, rooms);
    }
    if let Some(signal) = signal(transcript, wire, rooms, words) {
        receive(transcript, world, wire, rooms, now, signal);
        write_participants(transcript, rooms);
    }
}

/// What is looked up in the conferences.
fn ask(transcript: &mut Transcript, rooms: &Rooms, words: &[u8]) {
    let (kind, rest) = word(words);
    if is(kind, b"find") {
        let (name, _) = named(rest);
        write_place(
            transcript,
            rooms.find(name.call_id, name.local, name.remote),
        );
    } else {
        write_rows(transcript, rooms.rows_waiting());
    }
}

/// A user without an account does this with this number.
fn fill_one(
    quiet: &mut Transcript,
    world: &TestEnvironment,
    wire: &mut TestTraffic,
    rooms: &mut Rooms,
    number: u64,
    deed: &[u8],
) {
    let mut line = Transcript::new(quiet.alloc);
    line.add(deed);
    line.add(b" 2 ");
    line.add_number(number);
    line.add(b" x@far.example");
    let done = is_done(quiet, world, wire, rooms, first_moment(), line.bytes());
    quiet.fail_unless(done);
    drop(line);
}

/// Users without an account create or join conferences, so many times from this number on; nothing of it is written.
fn fill(
    transcript: &mut Transcript,
    world: &TestEnvironment,
    wire: &mut TestTraffic,
    rooms: &mut Rooms,
    words: &[u8],
) {
    let (count, rest) = word(words);
    let (from, deed) = word(rest);
    let from = number(transcript, from);
    let mut quiet = Transcript::new(transcript.alloc);
    for index in 0..number(transcript, count) {
        let number = from.saturating_add(index);
        fill_one(&mut quiet, world, wire, rooms, number, deed);
    }
    transcript.fail_unless(!quiet.has_failed());
    drop(quiet);
}

/// Plays a row of a table, and writes it again where it has an input, an operation or a look-up.
fn play_row(
    transcript: &mut Transcript,
    world: &TestEnvironment,
    wire: &mut TestTraffic,
    rooms: &mut Rooms,
    row: &[u8],
) {
    if let Some(line) = skip_text(b"> ", row) {
        transcript.add_line(row);
        play_line(transcript, world, wire, rooms, line);
    } else if let Some(line) = skip_text(b"? ", row) {
        transcript.add_line(row);
        ask(transcript, rooms, line);
    } else if let Some(line) = skip_text(b"fill ", row) {
        transcript.add_line(row);
        fill(transcript, world, wire, rooms, line);
    } else if skip_text(b"# ", row).is_some() {
        transcript.add_line(row);
        wire.whole = true;
    }
}

fn play_rows(
    transcript: &mut Transcript,
    world: &TestEnvironment,
    wire: &mut TestTraffic,
    rooms: &mut Rooms,
    table: &[u8],
) {
    let mut rest = table;
    for _ in 0..2_000 {
        match split_once_at(b'\n', rest) {
            None => break,
            Some((row, later)) => {
                play_row(transcript, world, wire, rooms, row);
                rest = later;
            }
        }
    }
}

/// Plays a table over conferences.
fn play_over(
    transcript: &mut Transcript,
    world: &TestEnvironment,
    rooms: &mut Rooms,
    table: &[u8],
) {
    let mut wire = TestTraffic::new(transcript, Style::Rooms, b"t");
    play_rows(transcript, world, &mut wire, rooms, table);
    drop(wire);
}

/// Plays a table, and writes it again, with what is sent.
fn play(transcript: &mut Transcript, table: &[u8]) {
    let world = idle_environment(transcript);
    let mixer = Mixer {
        ip: [127, 0, 0, 1],
        port: 40000,
    };
    let rooms = Rooms::new(transcript.alloc, mixer, SIP);
    if let Some(mut rooms) = transcript.value_or_fail(rooms) {
        play_over(transcript, &world, &mut rooms, table);
        rooms.give_up();
    }
    drop(world);
}

/// The number of the first line of a table, from 1, that differs from the actual one; 0 where none does.
pub fn wrong_participant(alloc: Global, table: &[u8]) -> usize {
    let mut transcript = Transcript::new(alloc);
    play(&mut transcript, table);
    let wrong = transcript.wrong_line(table);
    drop(transcript);
    wrong
}
