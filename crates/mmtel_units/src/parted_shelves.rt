//! Shelves in parts: items whose hashes are in several parts, at the ends of parts, and equal.
ghost use Rattle.std.proofs.Props.{props};
ghost use Rattle.std.specs.Prelude.{◌≡◌, ◌<◌, nat_lt};
ghost use Rattle.std.specs.List.Sorted.{IsNonDecreasingBy};

use crate::asserting::assert_right;
use mmtel_base::number_up_to;
use mmtel_test_tables::{RowRunner, Transcript, split_or_all, wrong_line};
use mmtel_timers::{PartedShelf, Ranked, SearchKey, Steps};
use std::alloc::Global;
use std::marker::Brand;
use std::sync::ledger::{Blank, Ledger};

/// An item: a hash, which is its rank, and a number by which items of one hash are told apart.
#[derive(Clone, Copy)]
struct Hashed {
    hash: u64,
    number: u64,
}

impl Ranked for Hashed {
    ghost rank = { λ item. item.hash };

    fn rank(&self) -> u64 {
        self.hash
    }
}

impl SearchKey<Hashed> for Hashed {
    ghost before = { λ mark item. nat_lt item.hash mark.hash };

    ghost key_rank = { λ mark. mark.hash };

    fn key_rank(&self) -> u64 {
        self.hash
    }

    fn is_before(&self, item: &Hashed) -> bool {
        item.hash < self.hash
    }
}

/// Items in ascending order of their hashes, and the counter of comparisons next to them.
#[derive(Drop)]
struct Sorted<L: Ledger> {
    shelf: PartedShelf<Hashed>,
    steps: Steps<L>,
    ghost order: { IsNonDecreasingBy (λ item. item.hash) shelf } by { Prim.hlevel props },
}

fn number(digits: &[u8]) -> u64 {
    number_up_to(u64::MAX, digits).unwrap_or(0)
}

/// An item of a hash and a number.
fn item_of(item: &[u8]) -> Hashed {
    let (hash, of) = split_or_all(b' ', item);
    Hashed {
        hash: number(hash),
        number: number(of),
    }
}

impl<L: Ledger> Sorted<L> {
    /// Puts an item before the first whose hash is not below its own.
    fn put(&mut self, transcript: &mut Transcript, item: Hashed) {
        let place = self.shelf.seek(&item, &mut self.steps);
        transcript.fail_unless(self.shelf.insert(place, item).is_ok());
    }

    /// Writes the index of the first item whose hash is not below this one, and the number of that item if it is found by the hash.
    fn write_found(&mut self, transcript: &mut Transcript, sought: Hashed) {
        transcript.add_spaced_number(self.shelf.seek(&sought, &mut self.steps) as u64);
        match self.shelf.find(&sought, &mut self.steps) {
            None => transcript.add(b" -"),
            Some(found) => transcript.add_spaced_number(found.number),
        }
        transcript.add(b"\n");
    }
}

/// `+` with a hash and a number puts an item in; `?` with a hash writes the index of the first item whose hash is not below it, and the number of that item, or `-`.
impl<L: Ledger> RowRunner for Sorted<L> {
    fn run_row(&mut self, transcript: &mut Transcript, asked: &[u8]) {
        match asked {
            [b'+', item @ ..] => self.put(transcript, item_of(item)),
            [_, item @ ..] => self.write_found(transcript, item_of(item)),
            [] => transcript.fail(),
        }
    }
}

/// Hashes of the first part, whose last one is 2^58 - 1, of the second, and of the last; two are equal. Those that are sought are also of parts without items, and of a part whose
/// items all come before them: an item of a later part is then not returned.
const HASHES: &[u8] = b"> ?0
 0 -
> +288230376151711744 1
> ?0
 0 -
> ?288230376151711743
 0 -
> ?288230376151711744
 0 1
> ?288230376151711745
 1 -
> +288230376151711743 2
> +576460752303423487 3
> +18446744073709551615 4
> +0 5
> +288230376151711744 6
> ?0
 0 5
> ?1
 1 2
> ?288230376151711743
 1 2
> ?288230376151711744
 2 6
> ?288230376151711745
 4 3
> ?576460752303423487
 4 3
> ?576460752303423488
 5 -
> ?18158513697557839871
 5 -
> ?18158513697557839872
 5 4
> ?18446744073709551615
 5 4
";

/// Removes the items at some indexes, of which one is past the end, and writes them; then what remains, and what is at its end. 0 where that is right.
fn wrong_removed<L: Ledger>(alloc: Global, sorted: Sorted<L>) -> usize {
    let mut transcript = Transcript::new(alloc);
    let Sorted {
        mut shelf,
        mut steps,
        ..
    } = sorted;
    for place in [6, 3, 0, 3] {
        match shelf.remove(place) {
            None => transcript.add(b" -"),
            Some(item) => transcript.add_spaced_number(item.number),
        }
    }
    transcript.add_spaced_number(shelf.len() as u64);
    for place in 0..4 {
        match shelf.look(place, &mut steps) {
            None => transcript.add(b" -"),
            Some(item) => transcript.add_spaced_number(item.number),
        }
    }
    transcript.add(b"\n");
    transcript.wrong_line(b" - 1 5 4 3 2 6 3 -\n")
}

/// The number of the first line of the table, from 1, that differs from the actual one; where none does, of the text of what is removed; 0 where that does not differ either.
fn wrong_hashes<L: Ledger>(alloc: Global, blank: Blank) -> usize
    requires name { blank.name ≡ L.name }
    requires parts { blank.parts ≡ L.parts }
    requires some { 0 < L.parts }
{
    let steps: Steps<L> = Steps::new(blank);
    let mut sorted = Sorted {
        shelf: PartedShelf::new(alloc),
        steps,
    };
    match wrong_line(alloc, &mut sorted, HASHES) {
        0 => wrong_removed(alloc, sorted),
        line => line,
    }
}

/// The same with a counter of its own.
fn wrong_parts(alloc: Global) -> usize {
    wrong_hashes::<Brand>(alloc, Blank::new(1))
}

#[test]
fn items_are_sought_in_the_part_of_their_hash(rt: HostRuntime) {
    assert_right(&rt, "HASHES", wrong_parts(rt.alloc()));
}
