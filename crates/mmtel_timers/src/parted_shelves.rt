//! Shelves in parts, so that inserting an item or removing one moves few others.
ghost use Rattle.std.specs.Prelude.{◌≡◌, ℕ, ◌+◌, ◌-◌, ◌*◌, ◌^◌, ◌≤◌, ◌<◌, true, false, [], OnOk, OnErr, IfErr, MatchOption, length, insert, remove, option_copied, slice_get};
ghost use Rattle.std.specs.List.Sorted.{IsPartitionedBy, IsPartitionPoint};
ghost use Rattle.mmtel_timers.specs.Parts.{ArePartsFrom, IsInPart, items_before, joined, part_of};
ghost use Rattle.mmtel_timers.specs.Shelves.{IsFirstOfRank};

use crate::shelves::{Ranked, SearchKey, Shelf};
use crate::steps::Steps;
use mmtel_base::NoMemory;
use std::alloc::Global;
use std::marker::Model;
use std::sync::ledger::Ledger;

/// How many ranks belong to a part: so the six highest bits of a rank decide, and there are at most 64 parts.
const RANKS_OF_A_PART: u64 = 1 << 58;

/// A list of items in the order of their ranks, and among those of one rank in an order that its owner maintains.
///
/// The items of each part are on a shelf of their own, so that inserting or removing one moves an address and a rank for some of the items of its part only. It is for many items
/// whose ranks are spread over all numbers, as hashes are.
pub struct PartedShelf<T: Ranked> {
    /// The shelf of each part, up to the last one that was needed.
    parts: Vec<Shelf<T>>,
    /// The number of all items.
    len: usize,
}

impl<T: Ranked> Model for PartedShelf<T> {
    ghost use Rattle.std.specs.Prelude.{List};
    ghost use Rattle.mmtel_timers.specs.Parts.{IsPartedState, joined};

    ghost Value = { List T };

    ghost view = { λ shelf. joined shelf.parts.items };

    ghost invariant = { λ shelf. IsPartedState T.rank shelf.len shelf.parts.items };
}

impl<T: Ranked + Drop> Drop for PartedShelf<T> {
    fn drop(self) {
        let PartedShelf { parts: _, len: _ } = self;
    }
}

/// The part of a rank.
fn part_of(rank: u64) -> usize
    ensures { result ≡ part_of rank }
{
    (rank / RANKS_OF_A_PART) as usize
}

/// The number of the items of all parts before one.
fn start_of<T: Ranked>(parts: &[Shelf<T>], part: usize) -> usize
    requires within { part ≤ length parts.now }
    requires fits { length (joined parts.now) < 2 ^ 64 }
    ensures { result ≡ length (items_before part parts.now) }
{
    let mut start = 0;
    for i in 0..part {
        start += parts[i].len();
    }
    start
}

/// The part with the item at a place, and the place in that part; None exactly where there is no such item.
fn locate<T: Ranked>(parts: &[Shelf<T>], place: usize) -> Option<(usize, usize)>
    ensures { MatchOption result (length (joined parts.now) ≤ place) (λ at. IsInPart parts.now place at.0 at.1) }
{
    let mut own = place;
    for part in 0..parts.len() {
        let len = parts[part].len();
        if own < len {
            return Some((part, own));
        }
        own -= len;
    }
    None
}

/// Adds parts without items until there is one of this number.
fn add_parts<T: Ranked>(parts: &mut Vec<Shelf<T>>, part: usize) -> Result<(), NoMemory>
    ensures ok { OnOk result (part < length parts.new.items) }
    ensures same { joined parts.new.items ≡ joined parts.old.items }
    ensures parted { ArePartsFrom T.rank 0 parts.old.items → ArePartsFrom T.rank 0 parts.new.items }
{
    while parts.len() <= part {
        parts.reserve(1)?;
        let none = Shelf::new(*parts.allocator());
        parts.push_reserved(none);
    }
    Ok(())
}

impl<T: Ranked> PartedShelf<T> {
    /// No items. It allocates nothing.
    pub fn new(alloc: Global) -> PartedShelf<T>
        ensures { result ≡ [] }
    {
        PartedShelf {
            parts: Vec::new(alloc),
            len: 0,
        }
    }

    /// The number of its items.
    pub fn len(&self) -> usize
        ensures { result ≡ length self.now }
    {
        self.len
    }

    /// The item at a place, None exactly where there is none. It counts as one step.
    pub fn look<L: Ledger>(&self, place: usize, steps: &mut Steps<L>) -> Option<&T>
        ensures item { option_copied result ≡ slice_get self.now place }
        ensures step { steps.new ≡ steps.old + 1 }
    {
        match locate(&self.parts, place) {
            Some((part, own)) => self.parts[part].look(own, steps),
            None => {
                steps.tick();
                None
            }
        }
    }

    /// Inserts an item before the one at a place, or at the end.
    ///
    /// # Errors
    ///
    /// Out of memory only; the item is returned, and the list is as before.
    pub fn insert(&mut self, place: usize, item: T) -> Result<(), (T, NoMemory)>
        requires within { place ≤ length self.old }
        requires ranked { IsPartitionPoint (λ x. T.rank x ≤ T.rank item) (λ x. T.rank item ≤ T.rank x) self.old place }
        ensures ok { OnOk result (self.new ≡ insert self.old place item) }
        ensures err { OnErr result (self.new ≡ self.old) }
        ensures handed_back { IfErr result (λ refused. refused.0 ≡ item) }
    {
        let part = part_of(item.rank());
        let len = match self.len.checked_add(1) {
            Some(len) => len,
            None => return Err((item, NoMemory)),
        };
        if let Err(fault) = add_parts(&mut self.parts, part) {
            return Err((item, fault));
        }
        let start = start_of(&self.parts, part);
        match self.parts[part].insert(place - start, item) {
            Ok(()) => {
                self.len = len;
                Ok(())
            }
            Err(refused) => Err(refused),
        }
    }

    /// Removes and returns the item at a place, None exactly where there is none.
    pub fn remove(&mut self, place: usize) -> Option<T>
        ensures item { result ≡ slice_get self.old place }
        ensures rest { self.new ≡ remove self.old place }
    {
        match locate(&self.parts, place) {
            Some((part, own)) => {
                self.len -= 1;
                self.parts[part].remove(own)
            }
            None => None,
        }
    }

    /// The first place whose item does not come before what is searched for. With n items it takes s steps with 2^s at most 2n + 1.
    pub fn seek<L: Ledger, M: SearchKey<T>>(&self, key: &M, steps: &mut Steps<L>) -> usize
        requires { IsPartitionedBy (M.before key.now) self.now }
        ensures within { result ≤ length self.now }
        ensures parted { IsPartitionPoint (λ x. M.before key.now x ≡ true) (λ x. M.before key.now x ≡ false) self.now result }
        ensures cost { 2 ^ (steps.new - steps.old) ≤ 2 * length self.now + 1 }
        ensures rise { steps.old ≤ steps.new }
    {
        let end = self.len;
        let part = part_of(key.key_rank());
        if part < self.parts.len() {
            let start = start_of(&self.parts, part);
            start + self.parts[part].seek(key, steps).position
        } else {
            end
        }
    }

    /// The first item that does not come before what is searched for; None where there is none, and also where only items of higher ranks remain. It takes as many steps as `seek`.
    pub fn find<L: Ledger, M: SearchKey<T>>(&self, key: &M, steps: &mut Steps<L>) -> Option<&T>
        requires { IsPartitionedBy (M.before key.now) self.now }
        ensures found { IsFirstOfRank T.rank (M.key_rank key.now) (M.before key.now) self.now (option_copied result) }
        ensures cost { 2 ^ (steps.new - steps.old) ≤ 2 * length self.now + 1 }
        ensures rise { steps.old ≤ steps.new }
    {
        let part = part_of(key.key_rank());
        if part < self.parts.len() {
            self.parts[part].seek(key, steps).item
        } else {
            None
        }
    }
}
