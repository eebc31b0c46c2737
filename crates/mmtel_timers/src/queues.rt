//! Deadlines as they are stored: in the order in which they are taken, and by key.
ghost use Rattle.std.specs.Prelude.{◌≡◌, ◌<◌, [], IfOk, OnOk, OnErr, Some};
ghost use Rattle.std.specs.BTreeMap.{insert_entry};
ghost use Rattle.std.specs.List.{AllByRecursion};
ghost use Rattle.std.specs.List.Sorted.{IsStrictlySortedBy};
ghost use Rattle.std.specs.Map.{keys_of};
ghost use Rattle.mmtel_timers.specs.Deadlines.{after_arming, IsEachOnce, soonest, without};
ghost use Rattle.mmtel_timers.specs.Queues.{number_of, queue_without, queue_position_at, queue_position_cmp, ArePositionsBut};

use crate::deadlines::Key;
use mmtel_base::NoMemory;
use std::alloc::Global;
use std::collections::BTreeMap;
use std::marker::Model;

/// The place of a deadline in the order of taking: by moment, and for one moment the first armed first.
#[derive(Clone, Copy, Debug, PartialEq, Eq, PartialOrd, Ord)]
pub struct QueuePosition {
    /// Its moment, in milliseconds since 1970-01-01T00:00:00Z.
    pub at: u64,
    /// How many were armed before it.
    pub number: u64,
}

/// The deadlines that are armed, in the order of taking, and the place in that order (the turn) of each key.
///
/// In contracts they are the list of moments and keys in the order of arming.
#[derive(Drop)]
pub struct Queue {
    queue: BTreeMap<QueuePosition, Key>,
    positions: BTreeMap<Key, QueuePosition>,
    armed: u64,
}

impl Model for Queue {
    ghost use Rattle.std.specs.Prelude.{List};
    ghost use Rattle.mmtel_timers.specs.Deadlines.{Deadline};
    ghost use Rattle.mmtel_timers.specs.Queues.{IsQueueState, queue_view};

    ghost Value = { List Deadline };

    ghost view = { λ q. queue_view q.queue.entries };

    ghost invariant = { λ q. IsQueueState q.armed q.queue.entries q.positions.entries };
}

impl Queue {
    /// No deadlines. It allocates nothing.
    pub fn new(alloc: Global) -> Queue
        ensures { result ≡ [] }
    {
        Queue {
            queue: BTreeMap::new(alloc),
            positions: BTreeMap::new(alloc),
            armed: 0,
        }
    }

    /// Arms the key for a moment, and no longer for an earlier choice of moment.
    ///
    /// # Errors
    ///
    /// Out of memory only, for its entries, or out of numbers: keys are armed at most 2^64 - 1 times in all. The deadlines are then as before.
    pub fn arm(&mut self, at: u64, key: Key) -> Result<(), NoMemory>
        ensures ok { OnOk result (self.new ≡ after_arming at key self.old) }
        ensures err { OnErr result (self.new ≡ self.old) }
    {
        if self.armed == u64::MAX {
            return Err(NoMemory);
        }
        let turn = QueuePosition {
            at,
            number: self.armed,
        };
        let earlier = insert_position(&mut self.queue, &mut self.positions, turn, key)?;
        remove_position(&mut self.queue, earlier);
        self.armed += 1;
        Ok(())
    }

    /// Disarms the key; nothing changes where it is not armed.
    pub fn disarm(&mut self, key: Key)
        ensures { self.new ≡ without key self.old }
    {
        let turn = self.positions.remove(&key);
        remove_position(&mut self.queue, turn);
    }

    /// The deadline that comes before all others, whether or not it is due.
    pub fn first(&self) -> Option<(u64, Key)>
        ensures { result ≡ soonest self.now }
    {
        match self.queue.first_key_value() {
            None => None,
            Some((turn, key)) => Some((turn.at, *key)),
        }
    }

    /// A theorem, without code: no key is armed twice.
    pub fn each_is_armed_once(&self)
        ensures { IsEachOnce self.now }
    {
        let _ = &self.queue;
    }
}

/// Inserts a turn, after all of its moment, for a key that then has no other; the earlier turn of the key is returned and stays in the queue.
///
/// # Errors
///
/// Out of memory only; all is then as before.
fn insert_position(
    queue: &mut BTreeMap<QueuePosition, Key>,
    positions: &mut BTreeMap<Key, QueuePosition>,
    position: QueuePosition,
    key: Key,
) -> Result<Option<QueuePosition>, NoMemory>
    requires { AllByRecursion (λ q. number_of q < position.number) queue.old.entries }
    ensures queue { OnOk result (queue.new.entries ≡ insert_entry queue_position_cmp queue.old.entries position key) }
    ensures sorted { OnOk result (IsStrictlySortedBy queue_position_cmp (keys_of queue.new.entries)) }
    ensures turns { OnOk result (ArePositionsBut key (Some position) positions.old.entries positions.new.entries) }
    ensures earlier { IfOk result (λ earlier. earlier ≡ queue_position_at key positions.old.entries) }
    ensures err_queue { OnErr result (queue.new.entries ≡ queue.old.entries) }
    ensures err_turns { OnErr result (positions.new.entries ≡ positions.old.entries) }
{
    match queue.insert(position, key) {
        Ok(_) => {}
        Err(_) => return Err(NoMemory),
    }
    match positions.insert(key, position) {
        Ok(earlier) => Ok(earlier),
        Err(_) => {
            queue.remove(&position);
            Err(NoMemory)
        }
    }
}

/// Removes a turn from the queue.
fn remove_position(queue: &mut BTreeMap<QueuePosition, Key>, position: Option<QueuePosition>)
    requires { IsStrictlySortedBy queue_position_cmp (keys_of queue.old.entries) }
    ensures removed { queue.new.entries ≡ queue_without position queue.old.entries }
    ensures sorted { IsStrictlySortedBy queue_position_cmp (keys_of queue.new.entries) }
{
    match position {
        Some(position) => {
            queue.remove(&position);
        }
        None => {}
    }
}
