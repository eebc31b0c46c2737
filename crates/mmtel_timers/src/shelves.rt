//! Lists whose items are examined one at a time, each such look being counted.
ghost use Rattle.std.specs.Prelude.{◌≡◌, ℕ, Bool, true, false, ◌+◌, ◌-◌, ◌*◌, ◌^◌, ◌≤◌, ◌<◌, [], OnOk, OnErr, IfErr, length, insert, remove, option_copied, slice_get};
ghost use Rattle.std.specs.List.Sorted.{IsPartitionedBy, IsPartitionPoint};

use crate::steps::Steps;
use mmtel_base::NoMemory;
use std::alloc::Global;
use std::cmp::Ordering;
use std::collections::VecDeque;
use std::marker::Model;
use std::sync::ledger::Ledger;

/// What a shelf may hold: it has a rank, a number by which most items are distinguished before anything else of them is examined.
pub trait Ranked {
    ghost rank: { Self → ℕ };

    /// Its rank.
    fn rank(&self) -> u64
        ensures { result ≡ rank self.now };
}

/// An item in a block of its own, and its rank beside it, so that a search reads adjacent memory and hardly ever the contents of the blocks.
struct Slot<T> {
    rank: u64,
    block: Box<T>,
}

impl<T: Drop> Drop for Slot<T> {
    fn drop(self) {
        let Slot { rank: _, block: _ } = self;
    }
}

impl<T> Slot<T> {
    /// The block alone.
    fn into_block(self) -> Box<T>
        ensures { result ≡ self.block }
    {
        let Slot { rank: _, block } = self;
        block
    }
}

/// A list of items, in an order that its owner maintains.
///
/// Each item is in a block of its own, so that inserting or removing one moves an address and a rank for each item on the shorter side of its place.
pub struct Shelf<T: Ranked> {
    items: VecDeque<Slot<T>>,
}

impl<T: Ranked> Model for Shelf<T> {
    ghost use Rattle.std.specs.Prelude.{List};
    ghost use Rattle.mmtel_timers.specs.Ranks.{AreRanked, ranked_items};

    ghost Value = { List T };

    ghost view = { λ shelf. ranked_items shelf.items.items };

    ghost invariant = { λ shelf. AreRanked T.rank shelf.items.items };
}

impl<T: Ranked + Drop> Drop for Shelf<T> {
    fn drop(self) {
        let Shelf { items: _ } = self;
    }
}

/// A place that is searched for: it decides for each item whether that comes before it.
pub trait SearchKey<T: Ranked> {
    ghost before: { Self → T → Bool };

    ghost key_rank: { Self → ℕ };

    /// Its rank: an item of a lower one comes before the place, and one of a higher one does not.
    fn key_rank(&self) -> u64
        ensures rank { result ≡ key_rank self.now }
        ensures lower { (x : T) → T.rank x < result → before self.now x ≡ true }
        ensures higher { (x : T) → result < T.rank x → before self.now x ≡ false };

    /// Whether the item comes before the place.
    fn is_before(&self, item: &T) -> bool
        ensures { result ≡ before self.now item.now };
}

/// A place, and the item there, None at the end.
#[derive(Clone, Copy)]
pub struct SearchResult<'a, T> {
    pub position: usize,
    pub item: Option<&'a T>,
}

/// Whether the item of a slot comes before the place: by the ranks, where they differ.
fn comes_before<T: Ranked, M: SearchKey<T>>(slot: &Slot<T>, rank: u64, key: &M) -> bool
    requires ranked { slot.now.rank ≡ T.rank slot.now.block.value }
    requires lower { (x : T) → T.rank x < rank → M.before key.now x ≡ true }
    requires higher { (x : T) → rank < T.rank x → M.before key.now x ≡ false }
    ensures { result ≡ M.before key.now slot.now.block.value }
{
    match slot.rank.cmp(&rank) {
        Ordering::Less => true,
        Ordering::Greater => false,
        Ordering::Equal => key.is_before(slot.block.as_ref()),
    }
}

impl<T: Ranked> Shelf<T> {
    /// An empty shelf. It allocates nothing.
    pub fn new(alloc: Global) -> Shelf<T>
        ensures { result ≡ [] }
    {
        Shelf {
            items: VecDeque::new(alloc),
        }
    }

    /// The number of its items.
    pub fn len(&self) -> usize
        ensures { result ≡ length self.now }
    {
        self.items.len()
    }

    /// The item at a place, None exactly where there is none. It counts as one step.
    pub fn look<L: Ledger>(&self, place: usize, steps: &mut Steps<L>) -> Option<&T>
        ensures item { option_copied result ≡ slice_get self.now place }
        ensures step { steps.new ≡ steps.old + 1 }
    {
        steps.tick();
        match self.items.get(place) {
            Some(slot) => Some(slot.block.as_ref()),
            None => None,
        }
    }

    /// Inserts an item before the one at a place, or at the end.
    ///
    /// # Errors
    ///
    /// Out of memory only; the item is returned, and the shelf is as before.
    pub fn insert(&mut self, place: usize, item: T) -> Result<(), (T, NoMemory)>
        requires { place ≤ length self.old }
        ensures ok { OnOk result (self.new ≡ insert self.old place item) }
        ensures err { OnErr result (self.new ≡ self.old) }
        ensures handed_back { IfErr result (λ refused. refused.0 ≡ item) }
    {
        let rank = item.rank();
        let block = match Box::new(*self.items.allocator(), item) {
            Ok(block) => block,
            Err(refused) => return Err((refused.value, NoMemory)),
        };
        if let Err(refused) = self.items.insert(place, Slot { rank, block }) {
            return Err((Box::into_inner(refused.value.into_block()), NoMemory));
        }
        Ok(())
    }

    /// Removes and returns the item at a place, None exactly where there is none.
    pub fn remove(&mut self, place: usize) -> Option<T>
        ensures item { result ≡ slice_get self.old place }
        ensures rest { self.new ≡ remove self.old place }
    {
        match self.items.remove(place) {
            Some(slot) => Some(Box::into_inner(slot.into_block())),
            None => None,
        }
    }

    /// Removes and returns the item at a place, and inserts another one where it belongs. It allocates nothing.
    pub fn exchange<L: Ledger, M: SearchKey<T>>(
        &mut self,
        from: usize,
        key: &M,
        item: T,
        steps: &mut Steps<L>,
    ) -> (T, usize)
        requires from { from < length self.old }
        requires parted { IsPartitionedBy (M.before key.now) (remove self.old from) }
        ensures removed { slice_get self.old from ≡ Some result.0 }
        ensures within { result.1 ≤ length (remove self.old from) }
        ensures place { IsPartitionPoint (λ x. M.before key.now x ≡ true) (λ x. M.before key.now x ≡ false) (remove self.old from) result.1 }
        ensures rest { self.new ≡ insert (remove self.old from) result.1 item }
        ensures rise { steps.old ≤ steps.new }
    {
        let rank = item.rank();
        let mut block = match self.items.remove(from) {
            Some(slot) => slot.into_block(),
            None => unreachable!(),
        };
        let taken = Box::replace(&mut block, item);
        let place = self.seek(key, steps).position;
        match self.items.insert(place, Slot { rank, block }) {
            Ok(()) => (taken, place),
            Err(_) => unreachable!(),
        }
    }

    /// The first place whose item does not come before what is searched for. With n items it takes s steps with 2^s at most 2n + 1, so at most as many as n has binary digits.
    pub fn seek<L: Ledger, M: SearchKey<T>>(
        &self,
        key: &M,
        steps: &mut Steps<L>,
    ) -> SearchResult<'_, T>
        requires { IsPartitionedBy (M.before key.now) self.now }
        ensures within { result.position ≤ length self.now }
        ensures parted { IsPartitionPoint (λ x. M.before key.now x ≡ true) (λ x. M.before key.now x ≡ false) self.now result.position }
        ensures item { option_copied result.item ≡ slice_get self.now result.position }
        ensures cost { 2 ^ (steps.new - steps.old) ≤ 2 * length self.now + 1 }
        ensures rise { steps.old ≤ steps.new }
    {
        let rank = key.key_rank();
        let mut low = 0;
        let mut high = self.items.len();
        let mut found = None;
        while low < high {
            let middle = low + (high - low) / 2;
            steps.tick();
            let slot = &self.items[middle];
            if comes_before(slot, rank, key) {
                low = middle + 1;
            } else {
                high = middle;
                found = Some(slot);
            }
        }
        match found {
            None => SearchResult {
                position: low,
                item: None,
            },
            Some(slot) => SearchResult {
                position: low,
                item: Some(slot.block.as_ref()),
            },
        }
    }
}
