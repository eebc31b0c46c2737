//! Tables that are played: what calls receive, a line each after `> `, and under it what is sent and how many calls each account has; what is looked up, after `? `.
//!
//! Bob has waiting with two calls. Transactions are numbered from 0, servers and clients together.
//! What is received begins with the moment: `invite PEER NUMBER WHO TARGET`, `answer TRANSACTION TAG STATUS`, `say PEER CALL-ID LOCAL REMOTE METHOD CSEQ`, `cancel TRANSACTION PEER
//! CALL-ID LOCAL REMOTE CSEQ`, `silent TRANSACTION`, `due CALL WORD NUMBER`, `over TRANSACTION`.
//! Operations on legs and rows come after `! `, see `lending`; `! fill COUNT` opens so many calls from users without an account, to users without one, of which nothing is written.
//! What is looked up: `find CALL-ID LOCAL REMOTE`, `asked TRANSACTION`, `party CALL`, `rows`.

use crate::environments::{
    SIP, TestEnvironment, first_moment, idle_environment, is, moment, number, peer_of, readings,
    word,
};
use crate::leg_operations::perform_leg_operation;
use crate::messages::{Coming, invite, named, request_in, response};
use crate::records::put_record;
use crate::step_reports::{
    Style, TestTraffic, branch_and_method, write_emits, write_head, write_rows,
};
use mmtel_b2bua::{CallFault, Calls, Signal};
use mmtel_base::{skip_text, split_once_at};
use mmtel_compose::ReceivedMessage;
use mmtel_test_tables::Transcript;
use mmtel_transaction::{DueWord, Emits, TKey};
use mmtel_types::{Account, CallNo, Moment, Peer, Side};
use std::alloc::Global;

/// Writes that no more calls are opened, and the transaction of the INVITE that was handed back.
fn write_fault(transcript: &mut Transcript, fault: &CallFault) {
    match fault {
        CallFault::Full(Signal::Arrived { key, .. }) => {
            write_head(transcript, b"full ", key.0);
            transcript.add(b"\n");
        }
        _ => transcript.fail(),
    }
}

fn write_outcome(
    transcript: &mut Transcript,
    wire: &mut TestTraffic,
    outcome: Result<Emits, CallFault>,
) {
    match outcome {
        Ok(emits) => write_emits(transcript, wire, emits),
        Err(fault) => {
            write_fault(transcript, &fault);
            drop(fault);
        }
    }
}

/// Writes how many calls Alice, Bob, Carol and Erin have.
pub fn write_live(transcript: &mut Transcript, calls: &Calls) {
    transcript.add(b"live");
    for number in 1..5 {
        transcript.add(b" ");
        transcript.add_number(u64::from(calls.live(Account(number))));
    }
    transcript.add(b"\n");
}

/// Writes a call and its side, or none.
pub fn write_place(transcript: &mut Transcript, place: Option<(CallNo, Side)>) {
    match place {
        None => transcript.add_line(b"-> none"),
        Some((call, side)) => {
            transcript.add(b"-> ");
            transcript.add_number(call.0);
            transcript.add_line(match side {
                Side::Caller => b" caller".as_slice(),
                Side::Callee => b" callee".as_slice(),
            });
        }
    }
}

/// Writes the peer and the account of a side.
fn write_party(transcript: &mut Transcript, party: Option<(Peer, Option<Account>)>) {
    match party {
        None => transcript.add_line(b"-> none"),
        Some((peer, account)) => {
            transcript.add(b"-> peer ");
            transcript.add_number(u64::from(peer.0));
            match account {
                None => transcript.add(b", no account"),
                Some(account) => {
                    transcript.add(b", account ");
                    transcript.add_number(u64::from(account.0));
                }
            }
            transcript.add(b"\n");
        }
    }
}

/// Writes the peers and the accounts of the sides of a call.
pub fn write_parties(transcript: &mut Transcript, calls: &Calls, call: u64) {
    write_party(transcript, calls.party(CallNo(call), Side::Caller));
    write_party(transcript, calls.party(CallNo(call), Side::Callee));
}

/// An INVITE, with what is parsed of its parties.
fn arrival(
    transcript: &mut Transcript,
    world: &TestEnvironment,
    coming: Coming<'_>,
) -> Option<Signal> {
    let invite = invite(transcript, coming, b"");
    match readings(transcript, world, &invite) {
        Some((parties, identities)) => Some(Signal::Arrived {
            key: TKey(coming.key),
            invite,
            served: parties.served_accounts(),
            registration: parties.registration,
            identities,
        }),
        None => {
            drop(invite);
            None
        }
    }
}

fn arrives(
    transcript: &mut Transcript,
    world: &TestEnvironment,
    wire: &mut TestTraffic,
    words: &[u8],
) -> Option<Signal> {
    let (peer, rest) = word(words);
    let (call, rest) = word(rest);
    let (who, whom) = word(rest);
    let coming = Coming {
        peer: peer_of(peer),
        key: wire.open(),
        name: b"",
        tag: call,
        call,
        who,
        whom,
        asserts: true,
    };
    arrival(transcript, world, coming)
}

fn answer(transcript: &mut Transcript, wire: &TestTraffic, words: &[u8]) -> Option<Signal> {
    let (key, rest) = word(words);
    let key = number(transcript, key);
    let sent = wire.sent_in(key)?;
    let response = response(transcript, &sent.message, sent.peer, rest, b"");
    Some(Signal::Answer {
        key: TKey(key),
        response,
    })
}

/// A request of a side, of this method, or its ACK.
fn asked(place: (CallNo, Side), key: u64, method: &[u8], request: ReceivedMessage) -> Signal {
    let (call, side) = place;
    if is(method, b"ACK") {
        Signal::Ack {
            call,
            side,
            ack: request,
        }
    } else {
        Signal::Request {
            call,
            side,
            key: TKey(key),
            request,
        }
    }
}

/// A request in a dialog is of the call and the side that are found by it.
fn say(
    transcript: &mut Transcript,
    wire: &mut TestTraffic,
    calls: &Calls,
    words: &[u8],
) -> Option<Signal> {
    let (peer, rest) = word(words);
    let (name, rest) = named(rest);
    let (method, cseq) = word(rest);
    let key = wire.key_of(method);
    let place = calls.find(name.call_id, name.local, name.remote);
    write_place(transcript, place);
    let place = place?;
    let request = request_in(transcript, peer_of(peer), key, name, method, cseq, b"");
    Some(asked(place, key, method, request))
}

/// A CANCEL is of the call whose INVITE it matches.
fn cancel(
    transcript: &mut Transcript,
    wire: &mut TestTraffic,
    calls: &Calls,
    words: &[u8],
) -> Option<Signal> {
    let (invite, rest) = word(words);
    let (peer, rest) = word(rest);
    let (name, cseq) = named(rest);
    let invite = number(transcript, invite);
    let key = wire.open();
    let place = calls.asked_by(TKey(invite));
    write_place(transcript, place);
    let (call, _) = place?;
    let cancel = request_in(
        transcript,
        peer_of(peer),
        invite,
        name,
        b"CANCEL",
        cseq,
        b"",
    );
    Some(Signal::Cancel {
        call,
        key: TKey(key),
        cancel,
        invite: TKey(invite),
    })
}

/// The transaction of what was sent timed out.
fn silent(transcript: &mut Transcript, wire: &TestTraffic, words: &[u8]) -> Option<Signal> {
    let key = number(transcript, words);
    let (branch, method) = branch_and_method(wire.sent_in(key)?);
    Some(Signal::Silent {
        branch: transcript.copy(branch),
        method: transcript.copy(method),
    })
}

fn due(transcript: &mut Transcript, words: &[u8]) -> Signal {
    let (call, rest) = word(words);
    let (kind, digits) = word(rest);
    let number_of = number(transcript, digits);
    let what = if is(kind, b"cap") {
        DueWord::Cap(number_of)
    } else {
        DueWord::NoAck(number_of)
    };
    Signal::Due {
        call: CallNo(number(transcript, call)),
        what,
    }
}

fn signal(
    transcript: &mut Transcript,
    world: &TestEnvironment,
    wire: &mut TestTraffic,
    calls: &Calls,
    words: &[u8],
) -> Option<Signal> {
    let (kind, rest) = word(words);
    if is(kind, b"invite") {
        return arrives(transcript, world, wire, rest);
    }
    if is(kind, b"answer") {
        return answer(transcript, wire, rest);
    }
    if is(kind, b"say") {
        return say(transcript, wire, calls, rest);
    }
    if is(kind, b"cancel") {
        return cancel(transcript, wire, calls, rest);
    }
    if is(kind, b"silent") {
        return silent(transcript, wire, rest);
    }
    if is(kind, b"due") {
        return Some(due(transcript, rest));
    }
    if is(kind, b"over") {
        return Some(Signal::Over {
            key: TKey(number(transcript, rest)),
        });
    }
    transcript.fail();
    None
}

/// The result of a signal that the calls receive.
fn heard(
    transcript: &Transcript,
    world: &TestEnvironment,
    wire: &mut TestTraffic,
    calls: &mut Calls,
    at: Moment,
    signal: Signal,
) -> Result<Emits, CallFault> {
    calls.signal(
        transcript.alloc,
        signal,
        &world.sheets,
        &world.peers,
        &world.accounts,
        &mut wire.desk.tokens,
        at,
    )
}

/// The result at a moment.
fn play_line(
    transcript: &mut Transcript,
    world: &TestEnvironment,
    wire: &mut TestTraffic,
    calls: &mut Calls,
    line: &[u8],
) {
    let (digits, words) = word(line);
    let at = moment(transcript, digits);
    if let Some(signal) = signal(transcript, world, wire, calls, words) {
        let outcome = heard(transcript, world, wire, calls, at, signal);
        write_outcome(transcript, wire, outcome);
        write_live(transcript, calls);
    }
}

/// The INVITE from a user without an account, to a user without one, with these digits.
fn stranger(
    transcript: &mut Transcript,
    world: &TestEnvironment,
    key: u64,
    digits: &[u8],
) -> Option<Signal> {
    let coming = Coming {
        peer: 2,
        key,
        name: b"",
        tag: digits,
        call: digits,
        who: b"x@far.example",
        whom: b"sip:y@far.example",
        asserts: true,
    };
    arrival(transcript, world, coming)
}

/// Opens one such call; nothing of it is written.
fn fill_one(
    transcript: &mut Transcript,
    world: &TestEnvironment,
    wire: &mut TestTraffic,
    calls: &mut Calls,
) {
    let key = wire.open();
    let mut digits = Transcript::new(transcript.alloc);
    digits.add_number(key);
    let signal = stranger(transcript, world, key, digits.bytes());
    drop(digits);
    if let Some(signal) = signal {
        let outcome = heard(transcript, world, wire, calls, first_moment(), signal);
        drop(transcript.value_or_fail(outcome));
    }
}

/// Opens so many calls from users without an account, to users without one; nothing of them is written.
fn fill(
    transcript: &mut Transcript,
    world: &TestEnvironment,
    wire: &mut TestTraffic,
    calls: &mut Calls,
    words: &[u8],
) {
    for _ in 0..number(transcript, words) {
        fill_one(transcript, world, wire, calls);
    }
}

/// What is looked up in the calls.
fn ask(transcript: &mut Transcript, calls: &Calls, words: &[u8]) {
    let (kind, rest) = word(words);
    if is(kind, b"find") {
        let (name, _) = named(rest);
        write_place(
            transcript,
            calls.find(name.call_id, name.local, name.remote),
        );
    } else if is(kind, b"asked") {
        let key = TKey(number(transcript, rest));
        write_place(transcript, calls.asked_by(key));
    } else if is(kind, b"party") {
        let call = number(transcript, rest);
        write_parties(transcript, calls, call);
    } else {
        write_rows(transcript, calls.rows_waiting());
    }
}

/// Operations on legs and rows, or many calls that are opened.
fn act(
    transcript: &mut Transcript,
    world: &TestEnvironment,
    wire: &mut TestTraffic,
    calls: &mut Calls,
    line: &[u8],
) {
    match skip_text(b"fill ", line) {
        Some(words) => fill(transcript, world, wire, calls, words),
        None => perform_leg_operation(transcript, world, wire, calls, line),
    }
}

/// Plays a row of a table, and writes it again where it has an input, an operation or a look-up.
fn play_row(
    transcript: &mut Transcript,
    world: &TestEnvironment,
    wire: &mut TestTraffic,
    calls: &mut Calls,
    row: &[u8],
) {
    if let Some(line) = skip_text(b"> ", row) {
        transcript.add_line(row);
        play_line(transcript, world, wire, calls, line);
    } else if let Some(line) = skip_text(b"? ", row) {
        transcript.add_line(row);
        ask(transcript, calls, line);
    } else if let Some(line) = skip_text(b"! ", row) {
        transcript.add_line(row);
        act(transcript, world, wire, calls, line);
    }
}

fn play_rows(
    transcript: &mut Transcript,
    world: &TestEnvironment,
    wire: &mut TestTraffic,
    calls: &mut Calls,
    table: &[u8],
) {
    let mut rest = table;
    for _ in 0..2_000 {
        match split_once_at(b'\n', rest) {
            None => break,
            Some((row, later)) => {
                play_row(transcript, world, wire, calls, row);
                rest = later;
            }
        }
    }
}

/// Runs a table over calls.
fn play_over(
    transcript: &mut Transcript,
    world: &TestEnvironment,
    calls: &mut Calls,
    table: &[u8],
) {
    let mut wire = TestTraffic::new(transcript, Style::Calls, b"t");
    play_rows(transcript, world, &mut wire, calls, table);
    drop(wire);
}

/// Plays a table, and writes it again, with what is sent; Bob has waiting with two calls.
fn play(transcript: &mut Transcript, table: &[u8]) {
    let mut world = idle_environment(transcript);
    put_record(transcript, &mut world, 2, b"waiting 2");
    let home = transcript.copy(b"home.example");
    let calls = Calls::new(transcript.alloc, home, SIP, 5, None, false, false);
    if let Some(mut calls) = transcript.value_or_fail(calls) {
        play_over(transcript, &world, &mut calls, table);
        calls.give_up();
    }
    drop(world);
}

/// The number of the first line of a table, from 1, that differs from the actual one; 0 where none does.
pub fn wrong_call(alloc: Global, table: &[u8]) -> usize {
    let mut transcript = Transcript::new(alloc);
    play(&mut transcript, table);
    let wrong = transcript.wrong_line(table);
    drop(transcript);
    wrong
}
