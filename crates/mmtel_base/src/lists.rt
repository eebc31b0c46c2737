//! Lists whose items may be linear values.
ghost use Rattle.std.specs.Prelude.{◌≡◌, List, [], ◌++◌, ◌∷◌, ◌↔◌, IfOk, IfErr, OnOk, OnErr, IsNone, option_to_list, take, drop, slice_set, slice_get, Some, length, ◌≤◌, ◌<◌, ◌+◌};

use crate::memory::NoMemory;
use std::alloc::Global;
use std::marker::Model;

/// A list of items that need not be droppable.
///
/// A list of linear items is consumed by `pop` until it is empty, and then by `destroy_empty`.
pub struct List<T> {
    kept: Option<Vec<T>>,
}

impl<T> Model for List<T> {
    ghost use Rattle.std.specs.Prelude.{List, []};
    ghost use Rattle.std.specs.Option.{option_map_or};

    ghost Value = { List T };

    ghost view = { λ t. option_map_or (λ v. v.items) t.kept [] };
}

impl<T: Drop> Drop for List<T> {
    fn drop(self) {
        let List { kept: _ } = self;
    }
}

impl<T> List<T> {
    /// An empty list. It allocates nothing.
    pub fn new() -> List<T>
        ensures { result ≡ [] }
    {
        List { kept: None }
    }

    /// An empty list, with capacity for this many items.
    ///
    /// # Errors
    ///
    /// Out of memory only.
    pub fn with_capacity(alloc: Global, len: usize) -> Result<List<T>, NoMemory>
        ensures empty { IfOk result (λ list. list ≡ []) }
    {
        let kept = Vec::with_capacity(alloc, len)?;
        Ok(List { kept: Some(kept) })
    }

    /// Adds an item at the end.
    ///
    /// # Errors
    ///
    /// Out of memory only; the item is returned, and the list is as before.
    pub fn push(&mut self, alloc: Global, item: T) -> Result<(), (T, NoMemory)>
        ensures ok { OnOk result (self.new ≡ self.old ++ item ∷ []) }
        ensures err { OnErr result (self.new ≡ self.old) }
        ensures handed_back { IfErr result (λ refused. refused.0 ≡ item) }
    {
        let mut kept = match self.kept.take() {
            Some(kept) => kept,
            None => Vec::new(alloc),
        };
        let pushed = match kept.push(item) {
            Ok(()) => Ok(()),
            Err(refused) => Err((refused.value, NoMemory)),
        };
        match self.kept.replace(kept) {
            Some(_) => unreachable!(),
            None => {}
        }
        pushed
    }

    /// The items, in order.
    pub fn items(&self) -> &[T]
        ensures { result.now ≡ self.now }
    {
        match &self.kept {
            Some(kept) => kept.as_slice(),
            None => &[],
        }
    }

    /// Replaces the item at a place, and returns the one that was there.
    pub fn replace(&mut self, at: usize, item: T) -> T
        requires { at < length self.old }
        ensures items { self.new ≡ slice_set self.old at item }
        ensures handed_out { slice_get self.old at ≡ Some result }
    {
        match &mut self.kept {
            Some(kept) => std::mem::replace(&mut kept[at], item),
            None => unreachable!(),
        }
    }

    /// Inserts an item before the one at a place, or at the end.
    ///
    /// # Errors
    ///
    /// Out of memory only; the item is returned, and the list is as before.
    pub fn insert(&mut self, alloc: Global, at: usize, item: T) -> Result<(), (T, NoMemory)>
        requires { at ≤ length self.old }
        ensures ok { OnOk result (self.new ≡ take at self.old ++ item ∷ drop at self.old) }
        ensures err { OnErr result (self.new ≡ self.old) }
        ensures handed_back { IfErr result (λ refused. refused.0 ≡ item) }
    {
        let mut kept = match self.kept.take() {
            Some(kept) => kept,
            None => Vec::new(alloc),
        };
        let pushed = match kept.insert(at, item) {
            Ok(()) => Ok(()),
            Err(refused) => Err((refused.value, NoMemory)),
        };
        match self.kept.replace(kept) {
            Some(_) => unreachable!(),
            None => {}
        }
        pushed
    }

    /// Removes and returns the item at a place.
    pub fn remove(&mut self, at: usize) -> T
        requires { at < length self.old }
        ensures rest { self.new ≡ take at self.old ++ drop (at + 1) self.old }
        ensures handed_out { slice_get self.old at ≡ Some result }
    {
        match &mut self.kept {
            Some(kept) => kept.remove(at),
            None => unreachable!(),
        }
    }

    /// Removes and returns the last item; None exactly where there is none.
    pub fn pop(&mut self) -> Option<T>
        ensures items { self.old ≡ self.new ++ option_to_list result }
        ensures empty { IsNone result ↔ (self.old ≡ []) }
    {
        match &mut self.kept {
            Some(kept) => kept.pop(),
            None => None,
        }
    }

    /// Removes and returns the first item; None exactly where there is none.
    pub fn pop_first(&mut self) -> Option<T>
        ensures items { self.old ≡ option_to_list result ++ self.new }
        ensures empty { IsNone result ↔ (self.old ≡ []) }
    {
        if self.items().is_empty() {
            return None;
        }
        Some(self.remove(0))
    }

    /// Moves the items of another list to the end of this one, in order.
    ///
    /// # Errors
    ///
    /// Out of memory only; the other list is returned, and this one is as before.
    pub fn extend(&mut self, alloc: Global, other: List<T>) -> Result<(), (List<T>, NoMemory)>
        ensures ok { OnOk result (self.new ≡ self.old ++ other) }
        ensures err { OnErr result (self.new ≡ self.old) }
        ensures handed_back { IfErr result (λ refused. refused.0 ≡ other) }
    {
        let List { kept: more } = other;
        let mut more = match more {
            Some(more) => more,
            None => return Ok(()),
        };
        let mut kept = match self.kept.take() {
            Some(kept) => kept,
            None => Vec::new(alloc),
        };
        let moved = match kept.append(&mut more) {
            Ok(()) => {
                more.destroy_empty();
                Ok(())
            }
            Err(_) => Err((List { kept: Some(more) }, NoMemory)),
        };
        match self.kept.replace(kept) {
            Some(_) => unreachable!(),
            None => {}
        }
        moved
    }

    /// Destroys a list that is empty, whatever the type of its items.
    pub fn destroy_empty(self)
        requires { self ≡ [] }
    {
        let List { kept } = self;
        match kept {
            Some(kept) => kept.destroy_empty(),
            None => {}
        }
    }
}
