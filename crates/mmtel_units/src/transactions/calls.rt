//! Sequences of calls, and the result of each: a table is one text, a call a line, with its result after `>`.

ghost use Rattle.std.specs.Prelude.{◌≡◌, ◌<◌};

use crate::transactions::messages::message;
use mmtel_base::{NoMemory, Text, number_up_to};
use mmtel_message::Msg;
use mmtel_test_tables::{Transcript, next_line, split_or_all};
use mmtel_timers::Steps;
use mmtel_transaction::{Due, HearFault, Heard, TKey, Transactions};
use mmtel_types::{Moment, Peer};
use std::alloc::Global;
use std::marker::Brand;
use std::sync::ledger::{Blank, Ledger};

/// A number in digits; 0 where there are none.
fn number(word: &[u8]) -> u64 {
    number_up_to(u64::MAX, word).unwrap_or(0)
}

/// A peer, a moment and the word of a message.
fn addressed(words: &[u8]) -> (Peer, Option<Moment>, &[u8]) {
    let (peer, words) = split_or_all(b' ', words);
    let (now, words) = split_or_all(b' ', words);
    let (word, _) = split_or_all(b' ', words);
    (
        Peer(u16::try_from(number(peer)).unwrap_or(0)),
        Moment::new(number(now)),
        word,
    )
}

/// Writes the first line of a message's text.
fn write_start(transcript: &mut Transcript, text: &Text) {
    let (line, _) = split_or_all(b'\r', text.bytes());
    transcript.add(b" ");
    transcript.add(line);
}

fn write_cancel(transcript: &mut Transcript, key: TKey, invite: Option<TKey>) {
    transcript.add(b"cancel");
    transcript.add_spaced_number(key.0);
    if let Some(invite) = invite {
        transcript.add_spaced_number(invite.0);
    }
}

fn write_repeat(transcript: &mut Transcript, given: &Option<(Peer, Text)>) {
    transcript.add(b"repeat");
    if let Some((peer, text)) = given {
        transcript.add_spaced_number(peer.0 as u64);
        write_start(transcript, text);
    }
}

fn write_key(transcript: &mut Transcript, word: &[u8], key: TKey) {
    transcript.add(word);
    transcript.add_spaced_number(key.0);
}

/// Writes the classification of a message.
fn write_received(transcript: &mut Transcript, said: &Heard) {
    match said {
        Heard::Fresh(key, _) => write_key(transcript, b"fresh", *key),
        Heard::Answer(key, _) => write_key(transcript, b"answer", *key),
        Heard::Repeat(given) => write_repeat(transcript, given),
        Heard::Acked(key) => write_key(transcript, b"acked", *key),
        Heard::Cancel(key, invite, _) => write_cancel(transcript, *key, *invite),
        Heard::AckOf2xx(_) => transcript.add(b"ack of 2xx"),
        Heard::Stray => transcript.add(b"stray"),
    }
}

fn write_refused(transcript: &mut Transcript, fault: &HearFault) {
    match fault {
        HearFault::Full(_) => transcript.add(b"full"),
        HearFault::NoMemory => transcript.fail(),
    }
}

fn write_again(transcript: &mut Transcript, peer: Peer, at: u64, text: &Text) {
    transcript.add(b"again");
    transcript.add_spaced_number(peer.0 as u64);
    transcript.add_spaced_number(at);
    write_start(transcript, text);
}

/// Writes what a deadline gives.
fn write_due(transcript: &mut Transcript, said: &Due) {
    match said {
        Due::Again(peer, at, text) => write_again(transcript, *peer, *at, text),
        Due::Silent {
            key,
            branch,
            method,
            at,
        } => {
            write_key(transcript, b"silent", *key);
            transcript.add_spaced_number(*at);
            transcript.add(b" ");
            transcript.add(branch.bytes());
            transcript.add(b" ");
            transcript.add(method.bytes());
        }
        Due::Over(key, at) => {
            write_key(transcript, b"over", *key);
            transcript.add_spaced_number(*at);
        }
        Due::Nothing => transcript.add(b"nothing"),
    }
}

/// Writes that it is done, unless memory ran out.
fn write_done(transcript: &mut Transcript, done: Result<(), NoMemory>) {
    match done {
        Ok(()) => transcript.add(b"done"),
        Err(NoMemory) => transcript.fail(),
    }
}

/// `hear PEER MOMENT MESSAGE`.
fn receive<L: Ledger>(
    transcript: &mut Transcript,
    transactions: &mut Transactions,
    peer: Peer,
    m: Msg,
    now: Moment,
    steps: &mut Steps<L>,
) {
    match transactions.hear(transcript.alloc, peer, m, now, steps) {
        Ok(said) => {
            write_received(transcript, &said);
            drop(said);
        }
        Err(fault) => {
            write_refused(transcript, &fault);
            drop(fault);
        }
    }
}

/// `ask PEER MOMENT MESSAGE`.
fn ask<L: Ledger>(
    transcript: &mut Transcript,
    transactions: &mut Transactions,
    peer: Peer,
    m: &Msg,
    now: Moment,
    steps: &mut Steps<L>,
) {
    match transactions.ask(transcript.alloc, peer, m, now, steps) {
        Ok(key) => write_key(transcript, b"asked", key),
        Err(NoMemory) => transcript.fail(),
    }
}

/// A call with a peer or a key, a moment and a message; `reply KEY MOMENT MESSAGE` and `ack KEY MOMENT MESSAGE` write whether they are done.
fn with_message<L: Ledger>(
    transcript: &mut Transcript,
    transactions: &mut Transactions,
    name: &[u8],
    words: &[u8],
    steps: &mut Steps<L>,
) {
    let (peer, now, word) = addressed(words);
    let Some(now) = now else {
        return;
    };
    let Some(m) = message(transcript, word) else {
        return;
    };
    match name {
        b"hear" => receive(transcript, transactions, peer, m, now, steps),
        b"ask" => {
            ask(transcript, transactions, peer, &m, now, steps);
            drop(m);
        }
        b"reply" => {
            let done = transactions.reply(transcript.alloc, TKey(peer.0 as u64), &m, now, steps);
            drop(m);
            write_done(transcript, done);
        }
        _ => {
            let done = transactions.ack(transcript.alloc, TKey(peer.0 as u64), &m, steps);
            drop(m);
            write_done(transcript, done);
        }
    }
}

/// `due MOMENT`.
fn due<L: Ledger>(
    transcript: &mut Transcript,
    transactions: &mut Transactions,
    now: Moment,
    steps: &mut Steps<L>,
) {
    match transactions.due(transcript.alloc, now, steps) {
        Ok(said) => {
            write_due(transcript, &said);
            drop(said);
        }
        Err(NoMemory) => transcript.fail(),
    }
}

/// `upcoming MOMENT`.
fn upcoming<L: Ledger>(
    transcript: &mut Transcript,
    transactions: &Transactions,
    now: Moment,
    steps: &mut Steps<L>,
) {
    match transactions.upcoming(now, steps) {
        None => transcript.add(b"nothing"),
        Some((at, step)) => {
            transcript.add(b"at");
            transcript.add_spaced_number(at);
            transcript.add_spaced_number(step);
        }
    }
}

/// `peer KEY`.
fn peer<L: Ledger>(
    transcript: &mut Transcript,
    transactions: &Transactions,
    key: TKey,
    steps: &mut Steps<L>,
) {
    match transactions.peer(key, steps) {
        None => transcript.add(b"none"),
        Some(peer) => {
            transcript.add(b"of");
            transcript.add_spaced_number(peer.0 as u64);
        }
    }
}

/// An OPTIONS request whose branch is this number: it differs from others early, so that comparing is quick.
fn numbered(transcript: &mut Transcript, branch: u64) -> Option<Msg> {
    let mut via = Transcript::new(transcript.alloc);
    via.add(b"SIP/2.0/UDP 127.0.0.1:5071;branch=");
    via.add_number(branch);
    let via = transcript.copy(via.whole());
    with_via(transcript, via)
}

/// An OPTIONS request with this Via.
pub fn with_via(transcript: &mut Transcript, via: Text) -> Option<Msg> {
    let mut m = message(transcript, b"OPTIONS/a")?;
    let done = m.set(transcript.alloc, b"Via", via);
    transcript.fail_unless(done.is_ok());
    Some(m)
}

/// `numbered NUMBER`: the request whose branch is this number is received.
fn receive_numbered<L: Ledger>(
    transcript: &mut Transcript,
    transactions: &mut Transactions,
    branch: u64,
    steps: &mut Steps<L>,
) {
    let Some(now) = Moment::new(0) else {
        return;
    };
    let Some(m) = numbered(transcript, branch) else {
        return;
    };
    receive(transcript, transactions, Peer(1), m, now, steps);
}

/// Whether a new request opened the transaction of this key.
fn is_fresh(said: &Heard, wanted: u64) -> bool {
    match said {
        Heard::Fresh(key, _) => key.0 == wanted,
        _ => false,
    }
}

/// Whether a request opens the transaction of this key.
pub fn opens<L: Ledger>(
    transcript: &Transcript,
    transactions: &mut Transactions,
    m: Msg,
    wanted: u64,
    now: Moment,
    steps: &mut Steps<L>,
) -> bool {
    match transactions.hear(transcript.alloc, Peer(1), m, now, steps) {
        Ok(said) => {
            let opened = is_fresh(&said, wanted);
            drop(said);
            opened
        }
        Err(fault) => {
            drop(fault);
            false
        }
    }
}

/// Whether the request whose branch is this number opens the transaction of this key.
fn opens_numbered<L: Ledger>(
    transcript: &mut Transcript,
    transactions: &mut Transactions,
    branch: u64,
    now: Moment,
    steps: &mut Steps<L>,
) -> bool {
    match numbered(transcript, branch) {
        None => false,
        Some(m) => opens(transcript, transactions, m, branch, now, steps),
    }
}

/// `many NUMBER`: requests are received whose branches are the numbers from 0 on; how many of them open the transaction whose key is their branch.
fn many<L: Ledger>(
    transcript: &mut Transcript,
    transactions: &mut Transactions,
    most: u64,
    steps: &mut Steps<L>,
) {
    let Some(now) = Moment::new(0) else {
        return;
    };
    let mut count: u64 = 0;
    for branch in 0..most {
        if opens_numbered(transcript, transactions, branch, now, steps) {
            count = count.saturating_add(1);
        }
    }
    transcript.add(b"opened");
    transcript.add_spaced_number(count);
}

/// A call with a moment only.
fn at_moment<L: Ledger>(
    transcript: &mut Transcript,
    transactions: &mut Transactions,
    is_taken: bool,
    word: u64,
    steps: &mut Steps<L>,
) {
    let Some(now) = Moment::new(word) else {
        return;
    };
    if is_taken {
        due(transcript, transactions, now, steps);
    } else {
        upcoming(transcript, transactions, now, steps);
    }
}

/// `begin STEP`.
fn begin(transcript: &mut Transcript, transactions: &mut Transactions, step: u64) {
    transactions.begin(step);
    transcript.add(b"done");
}

/// `merged KEY`.
fn merged<L: Ledger>(
    transcript: &mut Transcript,
    transactions: &Transactions,
    key: TKey,
    steps: &mut Steps<L>,
) {
    if transactions.merged(key, steps) {
        transcript.add(b"yes");
    } else {
        transcript.add(b"no");
    }
}

/// `settle KEY`, or `settle KEY NUMBER`.
fn settle<L: Ledger>(
    transcript: &mut Transcript,
    transactions: &mut Transactions,
    words: &[u8],
    steps: &mut Steps<L>,
) {
    let (key, own) = split_or_all(b' ', words);
    let own = if own.is_empty() {
        None
    } else {
        Some(u32::try_from(number(own)).unwrap_or(0))
    };
    transactions.settle(TKey(number(key)), own, steps);
    transcript.add(b"done");
}

/// Writes the result of a call.
fn play<L: Ledger>(
    transcript: &mut Transcript,
    transactions: &mut Transactions,
    call: &[u8],
    steps: &mut Steps<L>,
) {
    let (name, words) = split_or_all(b' ', call);
    match name {
        b"begin" => begin(transcript, transactions, number(words)),
        b"due" => at_moment(transcript, transactions, true, number(words), steps),
        b"upcoming" => at_moment(transcript, transactions, false, number(words), steps),
        b"peer" => peer(transcript, transactions, TKey(number(words)), steps),
        b"merged" => merged(transcript, transactions, TKey(number(words)), steps),
        b"settle" => settle(transcript, transactions, words, steps),
        b"many" => many(transcript, transactions, number(words), steps),
        b"numbered" => receive_numbered(transcript, transactions, number(words), steps),
        _ => with_message(transcript, transactions, name, words, steps),
    }
}

/// Makes the call of a line, and writes the line with its actual result.
fn play_line<L: Ledger>(
    transcript: &mut Transcript,
    transactions: &mut Transactions,
    line: &[u8],
    steps: &mut Steps<L>,
) {
    let (call, _) = split_or_all(b'>', line);
    transcript.add(call);
    transcript.add(b"> ");
    play(transcript, transactions, call, steps);
    transcript.add(b"\n");
}

/// The number of the first of these calls, from 1, with another result than the one after it; 0 where there is none.
fn wrong_counted<L: Ledger>(alloc: Global, table: &[u8], blank: Blank) -> usize
    requires name { blank.name ≡ L.name }
    requires parts { blank.parts ≡ L.parts }
    requires some { 0 < L.parts }
{
    let mut steps: Steps<L> = Steps::new(blank);
    let mut transcript = Transcript::new(alloc);
    let mut transactions = Transactions::new();
    let mut rest = table;
    for _ in 0..200 {
        if !rest.is_empty() {
            let (line, after) = next_line(rest);
            rest = after;
            play_line(&mut transcript, &mut transactions, line, &mut steps);
        }
    }
    drop(transactions);
    transcript.wrong_line(table)
}

/// The number of the first of these calls, from 1, with another result than the one after it; 0 where there is none. Their comparisons are counted together.
pub fn wrong_call(alloc: Global, table: &[u8]) -> usize {
    wrong_counted::<Brand>(alloc, table, Blank::new(1))
}
