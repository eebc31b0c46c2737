//! An index of a list: the positions of its items, by hashes of the keys by which they are looked up.
ghost use Rattle.std.specs.Prelude.{◌≡◌, [], ℕ, Bool, OnOk, OnErr, find};
ghost use Rattle.std.specs.BTreeSet.{keys};
ghost use Rattle.std.specs.List.{list_any};
ghost use Rattle.std.specs.Option.{option_copied};
ghost use Rattle.mmtel_trust.specs.HashIndex.{Covers, HasAlso, IsNext};

use mmtel_base::NoMemory;
use std::alloc::Global;
use std::collections::BTreeSet;
use std::marker::Model;

/// A hash, and a position in a list.
type IndexEntry = (u64, usize);

/// The positions of the items of a list that only grows, by their hashes.
///
/// Each item's position is kept under its hash. A position may be kept without its item, as when memory runs out before the item is added; so a look-up compares each item that
/// it finds with the key.
#[derive(Drop)]
pub struct HashIndex {
    entries: Option<BTreeSet<IndexEntry, Global>>,
}

impl Model for HashIndex {
    ghost use Rattle.std.specs.Prelude.{List, [], ℕ};
    ghost use Rattle.std.specs.Option.{option_map_or};
    ghost use Rattle.std.specs.BTreeSet.{keys};

    ghost Value = { List (ℕ × ℕ) };

    ghost view = { λ places. option_map_or (λ set. keys set) places.entries [] };
}

/// A key by which items of a list are looked up.
pub trait LookupKey<T> {
    ghost is_key_of: { Self → T → Bool };

    ghost hash: { Self → ℕ };

    /// Whether it is the key of the item.
    fn is_key_of(&self, item: &T) -> bool
        ensures { result ≡ is_key_of self.now item.now };

    /// The hash under which its items are kept.
    fn hash(&self) -> u64
        ensures { result ≡ hash self.now };
}

/// The first item with the key.
pub fn first_item<'a, T, K: LookupKey<T>>(
    index: &HashIndex,
    items: &'a [T],
    key: &K,
) -> Option<&'a T>
    requires { Covers (K.is_key_of key.now) (K.hash key.now) items.now index.now }
    ensures { option_copied result ≡ find (K.is_key_of key.now) items.now }
{
    let hash = key.hash();
    let mut from = 0;
    'index: while let Some(place) = index.next(hash, from) {
        match items.get(place) {
            None => return None,
            Some(item) => {
                if key.is_key_of(item) {
                    return Some(item);
                }
                from = place + 1;
            }
        }
    }
    None
}

/// Whether there is an item with the key.
pub fn has_item<T, K: LookupKey<T>>(index: &HashIndex, items: &[T], key: &K) -> bool
    requires { Covers (K.is_key_of key.now) (K.hash key.now) items.now index.now }
    ensures { result ≡ list_any (K.is_key_of key.now) items.now }
{
    first_item(index, items, key).is_some()
}

impl HashIndex {
    /// The empty index. It allocates nothing.
    pub fn new() -> HashIndex
        ensures { result ≡ [] }
    {
        HashIndex { entries: None }
    }

    /// Keeps a position under a hash.
    ///
    /// # Errors
    ///
    /// Out of memory only; the positions are then as before.
    pub fn add(&mut self, alloc: Global, hash: u64, position: usize) -> Result<(), NoMemory>
        ensures ok { OnOk result (HasAlso hash position self.old self.new) }
        ensures err { OnErr result (self.new ≡ self.old) }
    {
        match &mut self.entries {
            Some(kept) => {
                kept.insert((hash, position))?;
                Ok(())
            }
            None => {
                let mut kept = BTreeSet::new(alloc);
                kept.insert((hash, position))?;
                self.entries = Some(kept);
                Ok(())
            }
        }
    }

    /// The first position that is kept under the hash, at or after this one.
    fn next(&self, hash: u64, from: usize) -> Option<usize>
        ensures { IsNext self.now hash from result }
    {
        match &self.entries {
            None => None,
            Some(kept) => next_of(kept, hash, from),
        }
    }
}

/// The first position of the set under the hash, at or after this one.
fn next_of(kept: &BTreeSet<IndexEntry, Global>, hash: u64, from: usize) -> Option<usize>
    ensures { IsNext (keys kept.now) hash from result }
{
    match kept.range((hash, from)..).next() {
        None => None,
        Some(place) => if place.0 == hash { Some(place.1) } else { None },
    }
}
