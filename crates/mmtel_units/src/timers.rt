//! Deadlines, and the moments of retransmissions.
ghost use Rattle.std.proofs.Props.{props};
ghost use Rattle.std.specs.Prelude.{◌≡◌, ◌<◌, ◌/◌, nat_lt};
ghost use Rattle.std.specs.List.Sorted.{IsNonDecreasingBy};

use crate::asserting::assert_right;
use mmtel_base::number_up_to;
use mmtel_test_tables::{RowRunner, Transcript, split_or_all, wrong_line};
use mmtel_timers::{Deadlines, Key, Ranked, Schedule, SearchKey, Shelf, Steps};
use mmtel_types::Moment;
use std::alloc::Global;
use std::marker::Brand;
use std::sync::ledger::{Blank, Ledger};

/// Writes the moment and the key of a deadline, or `-`.
fn write_deadline(transcript: &mut Transcript, deadline: Option<(u64, Key)>) {
    match deadline {
        None => transcript.add(b"-"),
        Some((at, key)) => {
            transcript.add_spaced_number(at);
            transcript.add_spaced_number(key.0);
        }
    }
    transcript.add(b"\n");
}

/// The deadlines after the rows so far, and the counter of comparisons next to them.
#[derive(Drop)]
struct Armed<L: Ledger> {
    deadlines: Deadlines,
    steps: Steps<L>,
}

fn number(digits: &[u8]) -> u64 {
    number_up_to(u64::MAX, digits).unwrap_or(0)
}

impl<L: Ledger> Armed<L> {
    fn arm(&mut self, transcript: &mut Transcript, deadline: &[u8]) {
        let (at, key) = split_or_all(b' ', deadline);
        let armed = self.deadlines.arm(
            transcript.alloc,
            number(at),
            Key(number(key)),
            &mut self.steps,
        );
        transcript.fail_unless(armed.is_ok());
    }

    fn disarm(&mut self, key: &[u8]) {
        self.deadlines.disarm(Key(number(key)), &mut self.steps);
    }

    fn due_at(&mut self, now: u64) -> Option<(u64, Key)> {
        self.deadlines.next_due(Moment::new(now)?, &mut self.steps)
    }
}

/// Adds the moments of a schedule, also after its end.
fn add_moments(transcript: &mut Transcript, schedule: Schedule) {
    for k in [0, 1, 2, 3, 4, 5, 6, 7, 8, 9, 10, u32::MAX] {
        if let Some(moment) = schedule.at(k) {
            transcript.add_spaced_number(moment);
        }
    }
    transcript.add(b"\n");
}

/// `+` with a moment and a key arms the key, `-` with a key disarms it. `?` with a moment writes the moment and the key that are due then, or `-`; `^` writes the first of all. `I`
/// and `O` write the schedules of an INVITE and of other messages.
impl<L: Ledger> RowRunner for Armed<L> {
    fn run_row(&mut self, transcript: &mut Transcript, asked: &[u8]) {
        match asked {
            [b'+', deadline @ ..] => self.arm(transcript, deadline),
            [b'-', key @ ..] => self.disarm(key),
            [b'?', now @ ..] => write_deadline(transcript, self.due_at(number(now))),
            [b'^'] => write_deadline(transcript, self.deadlines.first()),
            [b'I'] => add_moments(transcript, Schedule::Invite),
            _ => add_moments(transcript, Schedule::Other),
        }
    }
}

/// Equal moments, arming again, disarming, and moments at the ends of both ranges; then each is removed once, the least moment first and of equal ones the first armed.
///
/// RFC 3261 §17.1.1.2: intervals of 500 ms, 1 s, 2 s, 4 s, 8 s and 16 s, and Timer B at 32 s.
/// RFC 3261 §17.1.2.2: intervals of 500 ms, 1 s, 2 s, and 4 s from then on, and Timer F at 32 s.
const STEPS: &[u8] = b"> ?250000000000000
-
> -1
> +500 1
> ?499
-
> ?500
 500 1
> +500 2
> +400 3
> ?399
-
> ?400
 400 3
> ?250000000000000
 400 3
> -3
> ?500
 500 1
> +500 1
> ?500
 500 2
> +600 2
> ?600
 500 1
> -1
> ?599
-
> ?600
 600 2
> -4
> ?600
 600 2
> -2
> ?250000000000000
-
> +18446744073709551615 18446744073709551615
> +250000000000001 5
> ?250000000000000
-
> +250000000000000 6
> ?249999999999999
-
> ?250000000000000
 250000000000000 6
> +0 18446744073709551615
> ?0
 0 18446744073709551615
> -5
> -6
> -18446744073709551615
> +5 1
> +3 2
> +5 3
> +3 4
> +9 5
> +5 2
> ?8
 3 4
> -4
> ?8
 5 1
> -1
> ?8
 5 3
> -3
> ?8
 5 2
> -2
> ?8
-
> I
 500 1500 3500 7500 15500 31500
> O
 500 1500 3500 7500 11500 15500 19500 23500 27500 31500
";

/// The first of all, whether or not it is due, and what is due at 7: after each arming, and after a disarming.
const FIRST: &[u8] = b"> ^
-
> ?7
-
> +9 1
> ^
 9 1
> ?7
-
> +5 2
> ^
 5 2
> ?7
 5 2
> +8 3
> ^
 5 2
> ?7
 5 2
> +8 2
> ^
 8 3
> ?7
-
> -3
> ^
 8 2
> ?7
-
";

/// The number of the first line of the table, from 1, that differs from the actual one; 0 where none does. Its comparisons are counted from zero.
fn wrong_counted<L: Ledger>(alloc: Global, table: &[u8], blank: Blank) -> usize
    requires name { blank.name ≡ L.name }
    requires parts { blank.parts ≡ L.parts }
    requires some { 0 < L.parts }
{
    let steps: Steps<L> = Steps::new(blank);
    let mut armed = Armed {
        deadlines: Deadlines::new(),
        steps,
    };
    wrong_line(alloc, &mut armed, table)
}

/// The same with a counter of its own.
fn wrong_deadlines(alloc: Global, table: &[u8]) -> usize {
    wrong_counted::<Brand>(alloc, table, Blank::new(1))
}

#[test]
fn deadlines_and_schedules(rt: HostRuntime) {
    assert_right(&rt, "STEPS", wrong_deadlines(rt.alloc(), STEPS));
    assert_right(&rt, "FIRST", wrong_deadlines(rt.alloc(), FIRST));
}

/// An item of a shelf (an ordered index): a number, of which the tens are the rank.
#[derive(Clone, Copy)]
struct Item(u64);

impl Ranked for Item {
    ghost rank = { λ item. item.0 / 10 };

    fn rank(&self) -> u64 {
        self.0 / 10
    }
}

impl SearchKey<Item> for Item {
    ghost before = { λ mark item. nat_lt item.0 mark.0 };

    ghost key_rank = { λ mark. mark.0 / 10 };

    fn key_rank(&self) -> u64 {
        self.rank()
    }

    fn is_before(&self, item: &Item) -> bool {
        item.0 < self.0
    }
}

/// Puts an item before the one at an index, or at the end.
fn put(transcript: &mut Transcript, shelf: &mut Shelf<Item>, place: usize, item: u64) {
    if place > shelf.len() || shelf.insert(place, Item(item)).is_err() {
        transcript.fail();
    }
}

/// Removes every item from the front and writes it.
fn take_all(transcript: &mut Transcript, shelf: &mut Shelf<Item>) {
    for _ in 0..shelf.len() {
        if let Some(item) = shelf.remove(0) {
            transcript.add_spaced_number(item.0);
        }
    }
    transcript.add(b"\n");
}

/// Items are put at the front, at the end and between two; 0 where they are in order then.
fn wrong_shelf(alloc: Global) -> usize {
    let mut transcript = Transcript::new(alloc);
    let mut shelf = Shelf::new(alloc);
    put(&mut transcript, &mut shelf, 0, 20);
    put(&mut transcript, &mut shelf, 1, 40);
    put(&mut transcript, &mut shelf, 0, 10);
    put(&mut transcript, &mut shelf, 2, 30);
    take_all(&mut transcript, &mut shelf);
    transcript.wrong_line(b" 10 20 30 40\n")
}

#[test]
fn items_are_put_on_a_shelf(rt: HostRuntime) {
    assert_right(&rt, "shelf", wrong_shelf(rt.alloc()));
}

/// A shelf of numbers in ascending order, and the counter of comparisons next to it.
#[derive(Drop)]
struct Sorted<L: Ledger> {
    shelf: Shelf<Item>,
    steps: Steps<L>,
    ghost order: { IsNonDecreasingBy (λ item. item.0) shelf } by { Prim.hlevel props },
}

impl<L: Ledger> Sorted<L> {
    /// Puts a number before the first that is not below it.
    fn put(&mut self, transcript: &mut Transcript, item: Item) {
        let place = self.shelf.seek(&item, &mut self.steps).position;
        transcript.fail_unless(self.shelf.insert(place, item).is_ok());
    }

    /// Writes the index of the first number that is not below this one, and that number.
    fn write_span(&mut self, transcript: &mut Transcript, item: Item) {
        let sought = self.shelf.seek(&item, &mut self.steps);
        transcript.add_spaced_number(sought.position as u64);
        match sought.item {
            None => transcript.add(b" -"),
            Some(found) => transcript.add_spaced_number(found.0),
        }
        transcript.add(b"\n");
    }
}

/// `+` puts a number in; `?` writes the index of the first that is not below one, and that number, or `-`.
impl<L: Ledger> RowRunner for Sorted<L> {
    fn run_row(&mut self, transcript: &mut Transcript, asked: &[u8]) {
        match asked {
            [b'+', digits @ ..] => self.put(transcript, Item(number(digits))),
            [_, digits @ ..] => self.write_span(transcript, Item(number(digits))),
            [] => transcript.fail(),
        }
    }
}

/// Numbers of different ranks and of one; those that are sought have a rank that no item has, that of one item, or that of several, some of which come before them.
const SOUGHT: &[u8] = b"> ?15
 0 -
> +25
> ?15
 0 25
> ?35
 1 -
> ?25
 0 25
> ?24
 0 25
> ?26
 1 -
> +11
> +43
> +22
> +28
> +25
> ?0
 0 11
> ?11
 0 11
> ?12
 1 22
> ?20
 1 22
> ?22
 1 22
> ?23
 2 25
> ?25
 2 25
> ?26
 4 28
> ?28
 4 28
> ?29
 5 43
> ?30
 5 43
> ?43
 5 43
> ?44
 6 -
> ?18446744073709551615
 6 -
> +18446744073709551615
> ?18446744073709551615
 6 18446744073709551615
> ?18446744073709551614
 6 18446744073709551615
";

/// The number of the first line of the table, from 1, that differs from the actual one; 0 where none does. Its comparisons are counted from zero.
fn wrong_sought<L: Ledger>(alloc: Global, blank: Blank) -> usize
    requires name { blank.name ≡ L.name }
    requires parts { blank.parts ≡ L.parts }
    requires some { 0 < L.parts }
{
    let steps: Steps<L> = Steps::new(blank);
    let mut sorted = Sorted {
        shelf: Shelf::new(alloc),
        steps,
    };
    wrong_line(alloc, &mut sorted, SOUGHT)
}

/// The same with a counter of its own.
fn wrong_places(alloc: Global) -> usize {
    wrong_sought::<Brand>(alloc, Blank::new(1))
}

#[test]
fn items_are_sought_by_their_ranks_first(rt: HostRuntime) {
    assert_right(&rt, "SOUGHT", wrong_places(rt.alloc()));
}
