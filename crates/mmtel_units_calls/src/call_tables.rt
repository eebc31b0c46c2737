//! Tables that are played: what a call receives, a line each after `> `, and under it what is sent and the state of the call then.
//!
//! `# ..` begins anew: no account has a record, none is in a call, and no transaction was opened. Transactions are numbered from 0, servers and clients together.
//! `> record N ..` sets the record of account N, `> busy N` says that it is in one more call, `> away N` that its registration has ended, `> bound N` sets the bound; from `>
//! reliable` on provisional responses may be reliable, and from `> timer` on sessions have timers.
//! All other lines begin with the moment; where they begin with `>> ` messages are written whole. After a `|` each are further header fields of the message, after `|=` lines of
//! its body.
//! `invite PEER WHO TARGET`, `answer TRANSACTION TAG STATUS`, `caller METHOD CSEQ`, `callee METHOD CSEQ` (of the first peer), `far METHOD CSEQ` (of the second),
//! `cancel TRANSACTION CSEQ`, `silent TRANSACTION`, `due WORD NUMBER`, `ended TRANSACTION`.

use crate::environments::{
    SIP, TestEnvironment, end_registration, first_moment, idle_environment, is, moment, number,
    peer_of, readings, set_busy, small, word,
};
use crate::messages::{Coming, RequestFields, invite, request, response, value};
use crate::records::put_record;
use crate::step_reports::{Style, TestTraffic, branch_and_method, write_emits, write_rows};
use mmtel_base::{List, NoMemory, skip_text, split_once_at};
use mmtel_call::{Call, Phase, Signal, Stage};
use mmtel_call_services::{Arrival, CallConfig, Snapshot};
use mmtel_compose::ReceivedMessage;
use mmtel_message::OwnAddress;
use mmtel_test_tables::{Transcript, split_or_all};
use mmtel_transaction::{DueWord, TKey};
use mmtel_types::{CallNo, Moment, Side};
use std::alloc::Global;
use std::mem;

fn write_side(transcript: &mut Transcript, word: &[u8], side: Side) {
    transcript.add(word);
    match side {
        Side::Caller => transcript.add(b"caller"),
        Side::Callee => transcript.add(b"callee"),
    }
}

fn write_stage(transcript: &mut Transcript, stage: &Stage) {
    match stage {
        Stage::Answered(side, _) => write_side(transcript, b"answered ", *side),
        Stage::Departing(side, _) => write_side(transcript, b"parting ", *side),
        Stage::Stable => transcript.add(b"talking"),
        Stage::Reinviting(side, _) => write_side(transcript, b"asking ", *side),
    }
}

fn write_phase(transcript: &mut Transcript, phase: &Phase) {
    match phase {
        Phase::Offered(trial) => if trial.attempt.rang {
            transcript.add(b"ringing");
        } else {
            transcript.add(b"asked");
        },
        Phase::Established(_, stage) => write_stage(transcript, stage),
        Phase::Detached(_) => transcript.add(b"lent"),
        Phase::Over(cause) => {
            transcript.add(b"over ");
            transcript.add(cause.word().as_bytes());
        }
    }
}

/// Writes the state of the call, and how many INVITEs are abandoned.
fn write_call(transcript: &mut Transcript, call: &Call) {
    transcript.add(b"-> ");
    write_phase(transcript, &call.phase);
    let loose = call.abandoned.items().len();
    if loose > 0 {
        transcript.add(b", loose ");
        transcript.add_number(loose as u64);
    }
    transcript.add(b"\n");
}

/// Writes the output of a step, and the state of the call then.
fn write_step(
    transcript: &mut Transcript,
    wire: &mut TestTraffic,
    outcome: Result<(), NoMemory>,
    call: &Call,
) {
    transcript.value_or_fail(outcome);
    let emits = mem::replace(&mut wire.desk.out, List::new());
    write_emits(transcript, wire, emits);
    let rows = mem::replace(&mut wire.desk.rows, List::new());
    write_rows(transcript, rows.items());
    drop(rows);
    write_call(transcript, call);
}

/// The configuration.
fn setting(world: &TestEnvironment) -> CallConfig<'_> {
    let bound = if world.bound < 16 { world.bound } else { 16 };
    CallConfig {
        sip: OwnAddress::of(SIP),
        home: b"home.example",
        bound,
        country: None,
        reliable: world.reliable,
        timer: world.timer,
        mwi: false,
        peers: &world.peers,
        accounts: &world.accounts,
    }
}

/// The snapshot of a step.
fn present(world: &TestEnvironment, at: Moment) -> Snapshot<'_> {
    Snapshot {
        at,
        sheets: &world.sheets,
        busy: &world.busy,
    }
}

/// The parsed values of an INVITE.
fn arrival(
    transcript: &mut Transcript,
    world: &TestEnvironment,
    key: u64,
    invite: ReceivedMessage,
) -> Option<Arrival> {
    match readings(transcript, world, &invite) {
        Some((parties, identities)) => Some(Arrival {
            number: CallNo(1),
            key: TKey(key),
            invite,
            served: parties.served_accounts(),
            registration: parties.registration,
            identities,
        }),
        None => {
            drop(invite);
            None
        }
    }
}

/// Drops a call.
fn let_go(call: Option<Call>, at: Moment) {
    match call {
        None => {}
        Some(call) => call.give_up(at),
    }
}

/// Opens a call and writes what is sent; the call before is dropped.
fn open(
    transcript: &mut Transcript,
    world: &TestEnvironment,
    wire: &mut TestTraffic,
    call: Option<Call>,
    at: Moment,
    arrival: Arrival,
) -> Option<Call> {
    let_go(call, at);
    let opened = Call::open(
        transcript.alloc,
        &setting(world),
        &present(world, at),
        arrival,
        &mut wire.desk,
    );
    match opened {
        Err(error) => {
            transcript.fail();
            drop(error);
            None
        }
        Ok(call) => {
            let call = Box::into_inner(call);
            write_step(transcript, wire, Ok(()), &call);
            Some(call)
        }
    }
}

/// An INVITE opens a call.
fn receive_invite(
    transcript: &mut Transcript,
    world: &TestEnvironment,
    wire: &mut TestTraffic,
    call: Option<Call>,
    at: Moment,
    words: &[u8],
    further: &[u8],
) -> Option<Call> {
    let (peer, rest) = word(words);
    let (who, target) = word(rest);
    let coming = Coming {
        peer: peer_of(peer),
        key: 0,
        name: b"\"Caller\" ",
        tag: b"",
        call: b"1",
        who,
        whom: target,
        asserts: true,
    };
    let invite = invite(transcript, coming, further);
    let key = wire.open();
    match arrival(transcript, world, key, invite) {
        None => call,
        Some(arrival) => open(transcript, world, wire, call, at, arrival),
    }
}

/// A response: transaction, tag, status.
fn answer(
    transcript: &mut Transcript,
    wire: &TestTraffic,
    words: &[u8],
    further: &[u8],
) -> Option<Signal> {
    let (key, rest) = word(words);
    let key = number(transcript, key);
    let sent = wire.sent_in(key)?;
    let response = response(transcript, &sent.message, sent.peer, rest, further);
    Some(Signal::Answer {
        key: TKey(key),
        response,
    })
}

/// A request of a side, of this method, or its ACK.
fn asked(side: Side, key: u64, method: &[u8], request: ReceivedMessage) -> Signal {
    if is(method, b"ACK") {
        Signal::Ack { side, ack: request }
    } else {
        Signal::Request {
            side,
            key: TKey(key),
            request,
        }
    }
}

/// A request of the caller in its dialog, or its CANCEL.
fn of_caller(
    transcript: &mut Transcript,
    opening: &ReceivedMessage,
    key: u64,
    method: &[u8],
    cseq: &[u8],
    further: &[u8],
) -> ReceivedMessage {
    let mut to = Transcript::new(transcript.alloc);
    to.add(value(&opening.message, b"To"));
    if !is(method, b"CANCEL") {
        to.add(b";tag=0123456789abcdef-1");
    }
    let saying = RequestFields {
        peer: opening.peer.0,
        key,
        from: value(&opening.message, b"From"),
        to: to.bytes(),
        call_id: b"c1",
        user: b"caller",
    };
    let heard = request(transcript, saying, method, cseq, further);
    drop(to);
    heard
}

fn caller_asks(
    transcript: &mut Transcript,
    wire: &mut TestTraffic,
    call: &Call,
    words: &[u8],
    further: &[u8],
) -> Signal {
    let (method, cseq) = word(words);
    let key = wire.key_of(method);
    let request = of_caller(transcript, &call.opening.invite, key, method, cseq, further);
    asked(Side::Caller, key, method, request)
}

fn callee_asks(
    transcript: &mut Transcript,
    wire: &mut TestTraffic,
    peer: u16,
    words: &[u8],
    further: &[u8],
) -> Signal {
    let (method, cseq) = word(words);
    let key = wire.key_of(method);
    let saying = RequestFields {
        peer,
        key,
        from: b"<sip:callee@home.example>;tag=b",
        to: b"<sip:caller@home.example>;tag=0123456789abcdef-3",
        call_id: b"0123456789abcdef-2",
        user: b"callee",
    };
    let request = request(transcript, saying, method, cseq, further);
    asked(Side::Callee, key, method, request)
}

fn cancel(
    transcript: &mut Transcript,
    wire: &mut TestTraffic,
    call: &Call,
    words: &[u8],
) -> Signal {
    let (invite, cseq) = word(words);
    let invite = number(transcript, invite);
    let key = wire.open();
    let cancel = of_caller(
        transcript,
        &call.opening.invite,
        invite,
        b"CANCEL",
        cseq,
        b"",
    );
    Signal::Cancel {
        key: TKey(key),
        cancel,
        invite: TKey(invite),
    }
}

/// The transaction of what was sent timed out.
fn silent(transcript: &mut Transcript, wire: &TestTraffic, words: &[u8]) -> Option<Signal> {
    let key = number(transcript, words);
    let (branch, method) = branch_and_method(wire.sent_in(key)?);
    Some(Signal::Silent {
        branch: transcript.copy(branch),
        method: transcript.copy(method),
    })
}

fn due(transcript: &mut Transcript, words: &[u8]) -> Signal {
    let (kind, digits) = word(words);
    let number = number(transcript, digits);
    let what = if is(kind, b"no-reply") {
        DueWord::NoReply(number)
    } else if is(kind, b"no-prack") {
        DueWord::NoPrack(number)
    } else if is(kind, b"cap") {
        DueWord::Cap(number)
    } else if is(kind, b"expired") {
        DueWord::Expired(number)
    } else {
        DueWord::NoAck(number)
    };
    Signal::Due { what }
}

fn signal(
    transcript: &mut Transcript,
    wire: &mut TestTraffic,
    call: &Call,
    words: &[u8],
    further: &[u8],
) -> Option<Signal> {
    let (kind, rest) = word(words);
    if is(kind, b"answer") {
        return answer(transcript, wire, rest, further);
    }
    if is(kind, b"caller") {
        return Some(caller_asks(transcript, wire, call, rest, further));
    }
    if is(kind, b"callee") {
        return Some(callee_asks(transcript, wire, 1, rest, further));
    }
    if is(kind, b"far") {
        return Some(callee_asks(transcript, wire, 2, rest, further));
    }
    if is(kind, b"cancel") {
        return Some(cancel(transcript, wire, call, rest));
    }
    if is(kind, b"silent") {
        return silent(transcript, wire, rest);
    }
    if is(kind, b"due") {
        return Some(due(transcript, rest));
    }
    if is(kind, b"ended") {
        return Some(Signal::Ended {
            key: TKey(number(transcript, rest)),
        });
    }
    None
}

/// The call takes a step.
fn step(
    transcript: &mut Transcript,
    world: &TestEnvironment,
    wire: &mut TestTraffic,
    call: &mut Call,
    at: Moment,
    signal: Signal,
) {
    let outcome = call.step(
        transcript.alloc,
        &setting(world),
        &present(world, at),
        signal,
        &mut wire.desk,
    );
    write_step(transcript, wire, outcome, call);
}

/// What an open call receives.
fn receive(
    transcript: &mut Transcript,
    world: &TestEnvironment,
    wire: &mut TestTraffic,
    call: Option<Call>,
    at: Moment,
    words: &[u8],
    further: &[u8],
) -> Option<Call> {
    match call {
        None => {
            transcript.fail();
            None
        }
        Some(call) => {
            let mut call = call;
            match signal(transcript, wire, &call, words, further) {
                None => transcript.fail(),
                Some(signal) => step(transcript, world, wire, &mut call, at, signal),
            }
            Some(call)
        }
    }
}

/// The result at a moment.
fn act(
    transcript: &mut Transcript,
    world: &TestEnvironment,
    wire: &mut TestTraffic,
    call: Option<Call>,
    line: &[u8],
) -> Option<Call> {
    let (words, further) = split_or_all(b'|', line);
    let (digits, words) = word(words);
    let at = moment(transcript, digits);
    match skip_text(b"invite ", words) {
        Some(words) => receive_invite(transcript, world, wire, call, at, words, further),
        None => receive(transcript, world, wire, call, at, words, further),
    }
}

/// Sets the environment of the call, where the line says so.
fn is_set(transcript: &mut Transcript, world: &mut TestEnvironment, line: &[u8]) -> bool {
    let (kind, rest) = word(line);
    if is(kind, b"record") {
        let (account, words) = word(rest);
        let account = u32::from(small(transcript, account));
        put_record(transcript, world, account, words);
    } else if is(kind, b"busy") {
        let account = u32::from(small(transcript, rest));
        set_busy(transcript, world, account);
    } else if is(kind, b"away") {
        let account = u32::from(small(transcript, rest));
        end_registration(transcript, world, account);
    } else if is(kind, b"bound") {
        world.bound = small(transcript, rest);
    } else if is(kind, b"reliable") {
        world.reliable = true;
    } else if is(kind, b"timer") {
        world.timer = true;
    } else {
        return false;
    }
    true
}

fn play_line(
    transcript: &mut Transcript,
    world: &mut TestEnvironment,
    wire: &mut TestTraffic,
    call: Option<Call>,
    line: &[u8],
) -> Option<Call> {
    if is_set(transcript, world, line) {
        return call;
    }
    act(transcript, world, wire, call, line)
}

/// Plays a row of a table, and writes it again where it has an input.
fn play_row(
    transcript: &mut Transcript,
    world: &mut TestEnvironment,
    wire: &mut TestTraffic,
    call: Option<Call>,
    row: &[u8],
) -> Option<Call> {
    if let Some(line) = skip_text(b">> ", row) {
        transcript.add_line(row);
        wire.whole = true;
        return play_line(transcript, world, wire, call, line);
    }
    if let Some(line) = skip_text(b"> ", row) {
        transcript.add_line(row);
        wire.whole = false;
        return play_line(transcript, world, wire, call, line);
    }
    call
}

/// The exchange before anything was sent.
fn first_traffic(transcript: &mut Transcript) -> TestTraffic {
    TestTraffic::new(transcript, Style::Call, b"0123456789abcdef")
}

/// Begins anew, where the row requires it.
fn begin(
    transcript: &mut Transcript,
    world: &mut TestEnvironment,
    wire: &mut TestTraffic,
    call: Option<Call>,
    row: &[u8],
) -> Option<Call> {
    if skip_text(b"# ", row).is_none() {
        return call;
    }
    transcript.add_line(row);
    let_go(call, first_moment());
    drop(mem::replace(world, idle_environment(transcript)));
    drop(mem::replace(wire, first_traffic(transcript)));
    None
}

fn play_rows(
    transcript: &mut Transcript,
    world: &mut TestEnvironment,
    wire: &mut TestTraffic,
    table: &[u8],
) {
    let mut call: Option<Call> = None;
    let mut rest = table;
    for _ in 0..2_000 {
        match split_once_at(b'\n', rest) {
            None => break,
            Some((row, later)) => {
                call = begin(transcript, world, wire, call, row);
                call = play_row(transcript, world, wire, call, row);
                rest = later;
            }
        }
    }
    let_go(call, first_moment());
}

/// Plays a table, and writes it again, with what is sent.
fn play(transcript: &mut Transcript, table: &[u8]) {
    let mut world = idle_environment(transcript);
    let mut wire = first_traffic(transcript);
    play_rows(transcript, &mut world, &mut wire, table);
    drop(wire);
    drop(world);
}

/// The number of the first line of a table, from 1, that differs from the actual one; 0 where none does.
pub fn wrong_step(alloc: Global, table: &[u8]) -> usize {
    let mut transcript = Transcript::new(alloc);
    play(&mut transcript, table);
    let wrong = transcript.wrong_line(table);
    drop(transcript);
    wrong
}
