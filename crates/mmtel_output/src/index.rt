//! Calls or conferences by their marks.
ghost use Rattle.std.specs.Prelude.{◌≡◌, ◌≤◌, ◌∷◌, [], ℕ, true, false, IsSomeAnd, Some, filter, not};
ghost use Rattle.std.specs.BTreeSet.{contains};
ghost use Rattle.std.specs.List.{list_any};
ghost use Rattle.mmtel_output.specs.Marks.{Holds, MarkUpdate, is_same, key_cmp, key_of};

use crate::marks::{Key, Mark};
use std::alloc::Global;
use std::collections::BTreeSet;

/// An index of the marks of each call, or of each conference, each with the number of its owner. If memory ran out for one mark, the index excludes no owner any more, and each
/// owner is examined.
///
/// A step of a call removes all its marks and inserts nearly all of them again. So a removed mark is deleted only when one of another owner is removed, and one that is inserted
/// again keeps its position.
#[derive(Drop)]
pub struct Index {
    keys: BTreeSet<Key>,
    /// The removed keys that may still be among the keys.
    pending_removals: Vec<Key>,
    is_complete: bool,
}

/// Whether two keys are equal.
fn is_same(one: &Key, other: &Key) -> bool
    ensures { result ≡ is_same one.now other.now }
{
    one.kind == other.kind && one.hash == other.hash && one.owner == other.owner
}

/// One key is no longer to be deleted.
fn keep_key(pending: &mut Vec<Key>, key: Key)
    ensures { pending.new.items ≡ filter (λ k. not (is_same key k)) pending.old.items }
{
    pending.retain(|gone| !is_same(&key, gone));
}

/// Deletes the removed keys, and no other.
fn remove_keys(keys: &mut BTreeSet<Key>, pending: &mut Vec<Key>)
    ensures gone { pending.new.items ≡ [] }
    ensures others { (k : Key) → contains key_cmp keys.old k ≡ true → list_any (is_same k) pending.old.items ≡ false → contains key_cmp keys.new k ≡ true }
{
    'pending: while let Some(key) = pending.pop() {
        keys.remove(&key);
    }
}

impl Index {
    /// The empty index. It allocates nothing.
    pub fn new(alloc: Global) -> Index {
        Index {
            keys: BTreeSet::new(alloc),
            pending_removals: Vec::new(alloc),
            is_complete: true,
        }
    }

    /// The number of the first owner that may have the mark; None where none has it.
    pub fn first(&self, mark: Mark) -> Option<u64>
        ensures { (number : ℕ) → Holds self.now (key_of mark number) → IsSomeAnd result (λ first. first ≤ number) }
    {
        if self.is_complete {
            return self.first_complete(mark);
        }
        Some(0)
    }

    /// The same where no mark is missing from the index.
    #[tactic(auto, unfolding(crate::specs::Marks::holds))]
    fn first_complete(&self, mark: Mark) -> Option<u64>
        requires { self.now.is_complete ≡ true }
        ensures { (number : ℕ) → Holds self.now (key_of mark number) → IsSomeAnd result (λ first. first ≤ number) }
    {
        let from = Key::of(mark, 0);
        let mut others = self.keys.range(from..);
        match others.next() {
            None => None,
            Some(key) => owner_of(*key, from),
        }
    }

    /// The owner of this number has this mark from now on.
    fn insert_mark(&mut self, mark: Mark, owner: u64)
        ensures { MarkUpdate true owner (mark ∷ []) self.old self.new }
    {
        let key = Key::of(mark, owner);
        keep_key(&mut self.pending_removals, key);
        match self.keys.insert(key) {
            Ok(_) => {}
            Err(_) => {
                self.is_complete = false;
            }
        }
    }

    /// The owner of this number no longer has this mark.
    fn remove_mark(&mut self, mark: Mark, owner: u64)
        ensures { MarkUpdate false owner (mark ∷ []) self.old self.new }
    {
        self.remove_others(owner);
        let key = Key::of(mark, owner);
        match self.pending_removals.push(key) {
            Ok(()) => {}
            Err(_) => {
                self.keys.remove(&key);
            }
        }
    }

    /// Deletes the removed keys, if they are of another owner than this one. What the index holds stays.
    fn remove_others(&mut self, owner: u64)
        ensures { (k : Key) → Holds self.old k → Holds self.new k }
    {
        match self.pending_removals.last() {
            None => {}
            Some(last) => {
                if last.owner != owner {
                    remove_keys(&mut self.keys, &mut self.pending_removals);
                }
            }
        }
    }

    /// The owner of this number has this mark from now on, or no longer has it. The marks of all others stay.
    pub fn put(&mut self, mark: Mark, owner: u64, stays: bool)
        ensures { MarkUpdate stays owner (mark ∷ []) self.old self.new }
    {
        if stays {
            self.insert_mark(mark, owner);
        } else {
            self.remove_mark(mark, owner);
        }
    }
}

/// The owner of a key, where the key has the same mark as another.
fn owner_of(key: Key, other: Key) -> Option<u64>
    ensures { key.kind ≡ other.kind → key.hash ≡ other.hash → result ≡ Some key.owner }
{
    if key.kind == other.kind && key.hash == other.hash {
        return Some(key.owner);
    }
    None
}
