//! Look-ups, first deadlines and ends among the maximum number of live server transactions, so many that a linear search at each call would take an hour.

ghost use Rattle.std.specs.Prelude.{◌≡◌, ◌<◌};

use crate::asserting::assert_right;
use crate::transactions::calls::{opens, with_via};
use crate::transactions::messages::message;
use mmtel_base::Text;
use mmtel_message::Msg;
use mmtel_test_tables::Transcript;
use mmtel_timers::Steps;
use mmtel_transaction::{Due, TKey, Transactions};
use mmtel_types::Moment;
use std::alloc::Global;
use std::marker::Brand;
use std::sync::ledger::{Blank, Ledger};

/// The maximum number of live server transactions.
const MOST: u64 = 16384;

/// A branch: all have one length, and differ in their last bytes alone.
fn branch(transcript: &mut Transcript, number: u64) -> Text {
    let mut branch = Transcript::new(transcript.alloc);
    branch.add(b"z9hG4bK-what-all-branches-begin-with-");
    branch.add_number(number.saturating_add(100000));
    transcript.copy(branch.whole())
}

/// The request of a branch.
fn request(transcript: &mut Transcript, number: u64) -> Option<Msg> {
    let of = branch(transcript, number);
    let mut via = Transcript::new(transcript.alloc);
    via.add(b"SIP/2.0/UDP 127.0.0.1:5071;branch=");
    via.add(of.bytes());
    let via = transcript.copy(via.whole());
    with_via(transcript, via)
}

/// Whether the request of a number is received and gets its response at that number's moment, so that its transaction ends 32,000 ms later.
fn is_answered<L: Ledger>(
    transcript: &mut Transcript,
    transactions: &mut Transactions,
    answer: &Msg,
    number: u64,
    steps: &mut Steps<L>,
) -> bool {
    let Some(now) = Moment::new(number) else {
        return false;
    };
    let Some(m) = request(transcript, number) else {
        return false;
    };
    opens(transcript, transactions, m, number, now, steps)
        && transactions
            .reply(transcript.alloc, TKey(number), answer, now, steps)
            .is_ok()
}

/// Opens the maximum number and responds to them; how many of them failed.
fn fill<L: Ledger>(
    transcript: &mut Transcript,
    transactions: &mut Transactions,
    steps: &mut Steps<L>,
) -> usize {
    let Some(answer) = message(transcript, b"200/OPTIONS/a") else {
        return 1;
    };
    let mut wrong: usize = 0;
    for number in 0..MOST {
        if !is_answered(transcript, transactions, &answer, number, steps) {
            wrong = wrong.saturating_add(1);
        }
    }
    drop(answer);
    wrong
}

/// The branches of all.
fn branches(transcript: &mut Transcript) -> Vec<Text> {
    let mut all = Vec::new(transcript.alloc);
    for number in 0..MOST {
        let one = branch(transcript, number);
        let pushed = all.push(one);
        transcript.fail_unless(pushed.is_ok());
    }
    all
}

/// Whether the transaction of the branch at an index has the number at that index.
fn is_found<L: Ledger>(
    transactions: &Transactions,
    branches: &[Text],
    place: u64,
    steps: &mut Steps<L>,
) -> bool {
    let Some(branch) = branches.get(place as usize) else {
        return false;
    };
    match transactions.server_of(branch.bytes(), b"127.0.0.1:5071", b"OPTIONS", steps) {
        None => false,
        Some(key) => key.0 == place,
    }
}

/// How many of so many look-ups, of all branches in turn, find another transaction or none.
fn lost<L: Ledger>(
    transactions: &Transactions,
    branches: &[Text],
    calls: u64,
    steps: &mut Steps<L>,
) -> usize {
    let mut wrong: usize = 0;
    for call in 0..calls {
        if !is_found(transactions, branches, call % MOST, steps) {
            wrong = wrong.saturating_add(1);
        }
    }
    wrong
}

/// How many of so many calls give another deadline than the first, which is that of moment 32,000.
fn mistaken<L: Ledger>(transactions: &Transactions, calls: u64, steps: &mut Steps<L>) -> usize {
    let Some(now) = Moment::new(250000) else {
        return 1;
    };
    let mut wrong: usize = 0;
    for _ in 0..calls {
        match transactions.upcoming(now, steps) {
            Some((32000, 0)) => {}
            _ => wrong = wrong.saturating_add(1),
        }
    }
    wrong
}

/// Whether the next deadline is the end of the transaction of this number.
fn is_end<L: Ledger>(
    transcript: &Transcript,
    transactions: &mut Transactions,
    number: u64,
    now: Moment,
    steps: &mut Steps<L>,
) -> bool {
    match transactions.due(transcript.alloc, now, steps) {
        Err(_) => false,
        Ok(said) => {
            let ended = is_over(&said, number);
            drop(said);
            ended
        }
    }
}

fn is_over(said: &Due, number: u64) -> bool {
    match said {
        Due::Over(key, at) => key.0 == number && *at == number.saturating_add(32000),
        _ => false,
    }
}

/// How many of all do not end in their turn, the oldest first.
fn unended<L: Ledger>(
    transcript: &Transcript,
    transactions: &mut Transactions,
    steps: &mut Steps<L>,
) -> usize {
    let Some(now) = Moment::new(250000) else {
        return 1;
    };
    let mut wrong: usize = 0;
    for number in 0..MOST {
        if !is_end(transcript, transactions, number, now, steps) {
            wrong = wrong.saturating_add(1);
        }
    }
    wrong
}

/// How many of 4,000,000 look-ups fail among the maximum number of live server transactions.
fn wrong_look_ups<L: Ledger>(alloc: Global, blank: Blank) -> usize
    requires name { blank.name ≡ L.name }
    requires parts { blank.parts ≡ L.parts }
    requires some { 0 < L.parts }
{
    let mut steps: Steps<L> = Steps::new(blank);
    let mut transcript = Transcript::new(alloc);
    let mut transactions = Transactions::new();
    let unfilled = fill(&mut transcript, &mut transactions, &mut steps);
    let all = branches(&mut transcript);
    let wrong = lost(&transactions, &all, 4_000_000, &mut steps);
    drop(all);
    drop(transactions);
    wrong.saturating_add(unfilled)
}

/// How many of 20,000,000 calls give another deadline than the first.
fn wrong_deadlines<L: Ledger>(alloc: Global, blank: Blank) -> usize
    requires name { blank.name ≡ L.name }
    requires parts { blank.parts ≡ L.parts }
    requires some { 0 < L.parts }
{
    let mut steps: Steps<L> = Steps::new(blank);
    let mut transcript = Transcript::new(alloc);
    let mut transactions = Transactions::new();
    let unfilled = fill(&mut transcript, &mut transactions, &mut steps);
    let wrong = mistaken(&transactions, 20_000_000, &mut steps);
    drop(transactions);
    wrong.saturating_add(unfilled)
}

/// How many of the maximum number of live transactions do not end in their turn.
fn wrong_ends<L: Ledger>(alloc: Global, blank: Blank) -> usize
    requires name { blank.name ≡ L.name }
    requires parts { blank.parts ≡ L.parts }
    requires some { 0 < L.parts }
{
    let mut steps: Steps<L> = Steps::new(blank);
    let mut transcript = Transcript::new(alloc);
    let mut transactions = Transactions::new();
    let unfilled = fill(&mut transcript, &mut transactions, &mut steps);
    let wrong = unended(&transcript, &mut transactions, &mut steps);
    drop(transactions);
    wrong.saturating_add(unfilled)
}

#[test]
fn look_ups_walk_nothing(rt: HostRuntime) {
    assert_right(
        &rt,
        "look-ups",
        wrong_look_ups::<Brand>(rt.alloc(), Blank::new(1)),
    );
}

#[test]
fn first_deadlines_walk_nothing(rt: HostRuntime) {
    assert_right(
        &rt,
        "deadlines",
        wrong_deadlines::<Brand>(rt.alloc(), Blank::new(1)),
    );
}

#[test]
fn ends_move_little(rt: HostRuntime) {
    assert_right(&rt, "ends", wrong_ends::<Brand>(rt.alloc(), Blank::new(1)));
}
