//! The table of calls as it is kept: each call in a block of its own on the heap, so that little moves when one leaves; in ascending order of their numbers; with the number of
//! live calls, and for each account the number of calls that keep it busy; each is found by its marks.
ghost use Rattle.std.specs.Prelude.{◌≡◌, ◌<◌, ◌≤◌, ◌+◌, ◌^◌, ◌++◌, true, false, None, IfOk, IfSome, OnOk, MatchResult, Some, if◌then◌else◌};
ghost use Rattle.std.specs.Prelude.{count_by, drop, length, nat_le, nat_lt, option_to_list, remove, slice_get, take, ℕ};
ghost use Rattle.std.specs.Option.{option_copied, option_map};
ghost use Rattle.std.specs.List.Sorted.{IsNonDecreasingBy, IsPartitionPoint};
ghost use Rattle.mmtel_output.specs.Marks.{AreBelow, AreUnmarked};
ghost use Rattle.mmtel_leg.specs.Releases.{released_leg};
ghost use Rattle.mmtel_base.specs.Numbers.{next_number};
ghost use Rattle.mmtel_b2bua.specs.Entries.{is_live, kept_entry};
ghost use Rattle.mmtel_b2bua.specs.Invariant.{box_values, lives_on, number_of, one_if};
ghost use Rattle.mmtel_b2bua.specs.Detaching.{can_restore, has_detached_leg, leg_in_entry, place_of, released_at, restored_at, step_of_finish_at};
ghost use Rattle.mmtel_b2bua.specs.Marks.{marks_of};
ghost use Rattle.mmtel_b2bua.specs.Queries.{live};
ghost use Rattle.mmtel_b2bua.specs.Tables.{busy_with, most_calls, no_calls, opening_step, step_of_entry_at};

use crate::busy::{add_account, count_again, is_gone, remove_account};
use crate::entries::{Entry, InviteKey};
use crate::marks::put_call;
use crate::step_context::StepContext;
use mmtel_base::{List, NoMemory};
use mmtel_call::{Call, NotTalking, Signal as CallSignal};
use mmtel_call_services::{Arrival, BusyCounts, CallConfig, Snapshot};
use mmtel_call_theorems::calls_continue;
use mmtel_charging::{Row, drop_first};
use mmtel_leg::Released;
use mmtel_output::{Index, Mark, StepOutput};
use mmtel_types::{Account, CallNo, Moment, Side};
use std::alloc::Global;
use std::marker::Model;

/// This many calls may be live at once.
const MOST_CALLS: usize = 4_096;

/// The calls for which something may still be received, and the CDRs that wait. They must be spent.
pub struct CallTable {
    entries: Vec<Box<Entry>>,
    opened: u64,
    live_count: usize,
    index: Index,
    busy: BusyCounts,
    rows: List<Row>,
}

impl Model for CallTable {
    ghost use Rattle.mmtel_b2bua.specs.Tables.{Table};

    ghost Value = { Table };

    ghost use Rattle.mmtel_b2bua.specs.Invariant.{TableInvariant, box_values};

    ghost view = { λ t. record { entries = box_values t.entries.items; opened = t.opened; rows = t.rows } };

    ghost invariant = { λ t. TableInvariant (box_values t.entries.items) t.opened t.live_count t.index t.busy };
}

/// The number of live calls after one of them, which was live before or not, is live now or not.
fn new_live_count(live_count: usize, old_live: bool, new_live: bool) -> usize
    requires there { one_if old_live ≤ live_count }
    requires capacity { live_count + one_if new_live < 2 ^ 64 + one_if old_live }
    ensures { result + one_if old_live ≡ live_count + one_if new_live }
{
    match (old_live, new_live) {
        (true, false) => live_count - 1,
        (false, true) => live_count + 1,
        _ => live_count,
    }
}

/// Spends a call and its entry.
fn give_up_entry(entry: Entry, at: Moment) {
    let Entry { call, invites } = entry;
    drop(invites);
    call.give_up(at);
}

/// Spends these calls and their entries.
fn give_up_all(entries: Vec<Box<Entry>>) {
    let mut entries = entries;
    'entries: while let Some(entry) = entries.pop() {
        give_up_entry(Box::into_inner(entry), beginning());
    }
    entries.destroy_empty();
}

/// The moment zero, for CDRs that nobody keeps.
fn beginning() -> Moment {
    match Moment::new(0) {
        Some(moment) => moment,
        None => unreachable!(),
    }
}

/// A call in a block of its own on the heap.
fn box_entry(alloc: Global, entry: Entry, at: Moment) -> Result<Box<Entry>, NoMemory>
    ensures { IfOk result (λ b. b.value ≡ entry) }
{
    match Box::new(alloc, entry) {
        Ok(boxed) => Ok(boxed),
        Err(refused) => {
            give_up_entry(refused.value, at);
            Err(NoMemory)
        }
    }
}

/// The index of the call of this number.
fn place_in(entries: &[Box<Entry>], number: CallNo) -> Option<usize>
    requires { IsNonDecreasingBy (λ b. number_of b.value) entries.now }
    ensures { result ≡ place_of number.0 (box_values entries.now) }
{
    let place = first_from(entries, number.0);
    if place == entries.len() {
        return None;
    }
    if entries[place].is_numbered(number) {
        Some(place)
    } else {
        None
    }
}

/// The index from which on no call has a lower number.
fn lower_bound(entries: &[Box<Entry>], number: u64) -> usize
    requires { IsNonDecreasingBy (λ b. number_of b.value) entries.now }
    ensures within { result ≤ length (box_values entries.now) }
    ensures lower { AreBelow number_of number (take result (box_values entries.now)) }
{
    first_from(entries, number)
}

/// The index of the first call whose number is not lower, or the count of calls if there is none.
fn first_from(entries: &[Box<Entry>], number: u64) -> usize
    requires { IsNonDecreasingBy (λ b. number_of b.value) entries.now }
    ensures parted { IsPartitionPoint (λ b. nat_lt (number_of b.value) number ≡ true) (λ b. nat_lt (number_of b.value) number ≡ false) entries.now result }
    ensures within { result ≤ length entries.now }
{
    match first_near_end(entries, number) {
        Some(place) => place,
        None => entries.partition_point(|entry| entry.call.opening.number.0 < number),
    }
}

/// The same, if a call precedes it and no later call has left: as far from the last one as the number is below that one's. So a call that was opened recently is found by few
/// comparisons.
fn first_near_end(entries: &[Box<Entry>], number: u64) -> Option<usize>
    requires { IsNonDecreasingBy (λ b. number_of b.value) entries.now }
    ensures parted { IfSome result (λ place. IsPartitionPoint (λ b. nat_lt (number_of b.value) number ≡ true) (λ b. nat_lt (number_of b.value) number ≡ false) entries.now place) }
    ensures within { IfSome result (λ place. place ≤ length entries.now) }
{
    let last = match entries.last() {
        None => return None,
        Some(last) => last.call.opening.number.0,
    };
    if last < number {
        return None;
    }
    let Ok(behind) = usize::try_from(last - number) else {
        return None;
    };
    if entries.len() <= behind {
        return None;
    }
    let place = entries.len() - 1 - behind;
    if place == 0 {
        return None;
    }
    if entries[place - 1].call.opening.number.0 < number
        && number <= entries[place].call.opening.number.0
    {
        Some(place)
    } else {
        None
    }
}

/// This many indices after another one, where this many calls are kept.
fn place_after(from: usize, places: usize, count: usize) -> Option<usize>
    requires { from + places < count }
    ensures { result ≡ Some (from + places) }
{
    let place = from + places;
    if place < count { Some(place) } else { None }
}

/// Keeps or removes the call at this index. Returns whether it stays and is live.
fn keep_at(entries: &mut Vec<Box<Entry>>, place: usize, gone: bool, at: Moment) -> bool
    requires { place < length entries.old.items }
    ensures entries { entries.new.items ≡ (if gone then remove entries.old.items place else entries.old.items) }
    ensures live { (e : Entry) → slice_get (box_values entries.old.items) place ≡ Some e → result ≡ lives_on gone e }
{
    if gone {
        give_up_entry(Box::into_inner(entries.remove(place)), at);
        return false;
    }
    entries[place].is_live()
}

impl CallTable {
    /// No calls yet. It allocates nothing.
    pub fn new(alloc: Global) -> CallTable
        ensures { result ≡ no_calls }
    {
        CallTable {
            entries: Vec::new(alloc),
            opened: 0,
            live_count: 0,
            index: Index::new(alloc),
            busy: BusyCounts::new(alloc),
            rows: List::new(),
        }
    }

    /// The number of the call that is opened next.
    pub fn next_number(&self) -> CallNo
        ensures { result.0 ≡ next_number self.now.opened }
    {
        CallNo(self.opened.saturating_add(1))
    }

    /// Whether as many calls are live as may be.
    pub fn is_full(&self) -> bool
        ensures { result ≡ nat_le most_calls (count_by is_live self.now.entries) }
    {
        self.live_count >= MOST_CALLS
    }

    /// How many of the calls keep the account busy, in 32 bits.
    pub fn live(&self, account: Account) -> u32
        ensures { result ≡ live account.0 self.now.entries }
    {
        self.busy.live(account)
    }

    /// The index of the call of this number.
    pub fn place_of(&self, number: CallNo) -> Option<usize>
        ensures { result ≡ place_of number.0 self.now.entries }
    {
        place_in(&self.entries, number)
    }

    /// The index from which on a call may have this mark.
    pub fn first_place_for(&self, mark: Mark) -> usize
        ensures within { result ≤ length self.now.entries }
        ensures none { AreUnmarked marks_of mark (take result self.now.entries) }
    {
        match self.index.first(mark) {
            None => self.entries.len(),
            Some(number) => lower_bound(&self.entries, number),
        }
    }

    /// The calls from this index on.
    pub fn entries_from(&self, from: usize) -> &[Box<Entry>]
        requires { from ≤ length self.now.entries }
        ensures { box_values result.now ≡ drop from self.now.entries }
    {
        let entries: &[Box<Entry>] = &self.entries;
        &entries[from..]
    }

    /// The index, in the whole table, of a call with this index among those from another index on.
    pub fn absolute_place(&self, from: usize, place: Option<usize>) -> Option<usize>
        requires { (n : ℕ) → place ≡ Some n → from + n < length self.now.entries }
        ensures { result ≡ option_map (λ n. from + n) place }
    {
        match place {
            None => None,
            Some(place) => place_after(from, place, self.entries.len()),
        }
    }

    /// The call at this index.
    pub fn get(&self, place: usize) -> Option<&Entry>
        ensures { option_copied result ≡ slice_get self.now.entries place }
    {
        match self.entries.get(place) {
            None => None,
            Some(entry) => Some(entry),
        }
    }

    /// Keeps a call that was opened, as long as something may be received for it. It has the next number.
    ///
    /// # Errors
    ///
    /// Out of memory only, for its entry or because the numbers are exhausted: 2^64 - 1 are opened in all.
    pub fn add(&mut self, alloc: Global, entry: Entry, at: Moment) -> Result<(), NoMemory>
        requires { number_of entry ≡ next_number self.old.opened }
        ensures { OnOk result (self.new ≡ record self.old { entries = self.old.entries ++ kept_entry entry; opened = next_number self.old.opened }) }
    {
        let number = entry.call.opening.number.0;
        if entry.call.is_settled() {
            give_up_entry(entry, at);
            self.opened = number;
            return Ok(());
        }
        if self.opened == u64::MAX {
            give_up_entry(entry, at);
            return Err(NoMemory);
        }
        let is_live = entry.is_live();
        put_call(&mut self.index, &entry, CallNo(number), true);
        let boxed = box_entry(alloc, entry, at)?;
        match boxed.add_to(&mut self.busy) {
            Ok(()) => {}
            Err(error) => {
                give_up_entry(Box::into_inner(boxed), at);
                return Err(error);
            }
        }
        match self.entries.push(boxed) {
            Ok(()) => {
                self.opened = number;
                self.live_count = new_live_count(self.live_count, false, is_live);
                Ok(())
            }
            Err(refused) => {
                refused.value.remove_from(&mut self.busy);
                give_up_entry(Box::into_inner(refused.value), at);
                Err(NoMemory)
            }
        }
    }

    /// The call that an INVITE opens beside these, in a block of its own on the heap.
    ///
    /// # Errors
    ///
    /// Out of memory only, also because the numbers are exhausted: 2^64 - 1 are opened in all.
    pub fn open(
        &mut self,
        step: &StepContext<'_>,
        arrival: Arrival,
        output: &mut StepOutput,
    ) -> Result<Box<Call>, NoMemory>
        requires { arrival.number.0 ≡ next_number self.old.opened }
        ensures call { IfOk result (λ call. call.value
            ≡ (opening_step step.now.config.now step.now.at step.now.sheets.now
            (busy_with arrival self.old.entries) arrival output.old).call) }
        ensures output { OnOk result (output.new
            ≡ (opening_step step.now.config.now step.now.at step.now.sheets.now
            (busy_with arrival self.old.entries) arrival output.old).output) }
        ensures number { IfOk result (λ call. call.value.opening.number ≡ arrival.number) }
        ensures same { self.new ≡ self.old }
    {
        calls_continue();
        if self.opened == u64::MAX {
            drop(arrival);
            return Err(NoMemory);
        }
        let origin = arrival.served.origin;
        match add_account(&mut self.busy, origin) {
            Ok(()) => {
                let snapshot = Snapshot {
                    at: step.at,
                    sheets: step.sheets,
                    busy: &self.busy,
                };
                let call = Call::open(step.alloc, step.config, &snapshot, arrival, output);
                remove_account(&mut self.busy, origin);
                call
            }
            Err(error) => {
                drop(arrival);
                Err(error)
            }
        }
    }

    /// The call at this index takes a step, and gets this INVITE in addition; it leaves once nothing more may be received for it.
    ///
    /// # Errors
    ///
    /// Out of memory only; the call has left then.
    pub fn receive_at(
        &mut self,
        step: &StepContext<'_>,
        place: usize,
        signal: CallSignal,
        invite: Option<InviteKey>,
        output: &mut StepOutput,
    ) -> Result<(), NoMemory>
        requires { place < length self.old.entries }
        ensures table { OnOk result (self.new ≡ record self.old {
          entries =
              (step_of_entry_at step.now.config.now step.now.at step.now.sheets.now signal (option_to_list invite) place
              (slice_get self.old.entries place) self.old.entries output.old).entries;
        }) }
        ensures output { OnOk result (output.new
            ≡ (step_of_entry_at step.now.config.now step.now.at step.now.sheets.now signal (option_to_list invite) place
            (slice_get self.old.entries place) self.old.entries output.old).output) }
    {
        let entry = &mut *self.entries[place];
        let old_live = entry.is_live();
        let number = entry.call.opening.number;
        let origin = entry.origin();
        put_call(&mut self.index, entry, number, false);
        remove_account(&mut self.busy, entry.served());
        let snapshot = Snapshot {
            at: step.at,
            sheets: step.sheets,
            busy: &self.busy,
        };
        let step_result = entry.receive(step.alloc, step.config, &snapshot, signal, invite, output);
        let counted = count_again(&mut self.busy, entry, step_result);
        remove_account(&mut self.busy, origin);
        let gone = is_gone(&counted);
        put_call(&mut self.index, entry, number, !gone);
        let new_live = keep_at(&mut self.entries, place, gone, step.at);
        self.live_count = new_live_count(self.live_count, old_live, new_live);
        match counted {
            Ok(_) => Ok(()),
            Err(error) => Err(error),
        }
    }

    /// The call at this index, whose leg is detached, ends; it leaves once nothing more may be received for it.
    ///
    /// # Errors
    ///
    /// Out of memory only; the call has left then.
    pub fn finish_at(
        &mut self,
        alloc: Global,
        config: &CallConfig<'_>,
        at: Moment,
        place: usize,
        output: &mut StepOutput,
    ) -> Result<(), NoMemory>
        requires place { place < length self.old.entries }
        requires detached { has_detached_leg (slice_get self.old.entries place) ≡ true }
        ensures table { OnOk result
            (self.new ≡ record self.old { entries = (step_of_finish_at config.now at place (slice_get self.old.entries place) self.old.entries output.old).entries }) }
        ensures output { OnOk result (output.new ≡ (step_of_finish_at config.now at place
            (slice_get self.old.entries place) self.old.entries output.old).output) }
    {
        let entry = &mut *self.entries[place];
        let old_live = entry.is_live();
        let number = entry.call.opening.number;
        put_call(&mut self.index, entry, number, false);
        entry.remove_from(&mut self.busy);
        let finished = entry.finish(alloc, config, at, output);
        let counted = count_again(&mut self.busy, entry, finished);
        let gone = is_gone(&counted);
        put_call(&mut self.index, entry, number, !gone);
        let new_live = keep_at(&mut self.entries, place, gone, at);
        self.live_count = new_live_count(self.live_count, old_live, new_live);
        match counted {
            Ok(_) => Ok(()),
            Err(error) => Err(error),
        }
    }

    /// Detaches a leg of the call at this index.
    pub fn release_at(&mut self, place: usize, side: Side) -> Result<Released, NotTalking>
        requires { place < length self.old.entries }
        ensures table { self.new ≡ record self.old { entries = released_at side place (slice_get self.old.entries place) self.old.entries } }
        ensures leg { MatchResult result (λ leg. leg_in_entry side (slice_get self.old.entries place) ≡ Some leg)
            (λ refused. leg_in_entry side (slice_get self.old.entries place) ≡ None) }
    {
        let entry = &mut *self.entries[place];
        let number = entry.call.opening.number;
        put_call(&mut self.index, entry, number, false);
        let leg = entry.call.release(side);
        put_call(&mut self.index, entry, number, true);
        leg
    }

    /// Puts a leg back into the call at this index.
    pub fn restore_at(&mut self, place: usize, leg: Released)
        requires place { place < length self.old.entries }
        requires fits { can_restore leg (slice_get self.old.entries place) ≡ true }
        requires meter { (released_leg leg).meter ≡ None }
        ensures { self.new ≡ record self.old { entries = restored_at leg place (slice_get self.old.entries place) self.old.entries } }
    {
        let entry = &mut *self.entries[place];
        let number = entry.call.opening.number;
        put_call(&mut self.index, entry, number, false);
        entry.call.restore(leg);
        put_call(&mut self.index, entry, number, true);
    }

    /// The CDRs that wait, in the order in which they were closed.
    pub fn rows(&self) -> &[Row]
        ensures { result.now ≡ self.now.rows }
    {
        self.rows.items()
    }

    /// Keeps the CDRs that were closed, until they are handed over.
    pub fn keep_rows(&mut self, alloc: Global, rows: List<Row>) -> Result<(), NoMemory>
        ensures { OnOk result (self.new ≡ record self.old { rows = self.old.rows ++ rows }) }
    {
        match self.rows.extend(alloc, rows) {
            Ok(()) => Ok(()),
            Err((rows, error)) => {
                drop(rows);
                Err(error)
            }
        }
    }

    /// Removes this many of the CDRs that wait: they were handed over.
    pub fn drop_rows(&mut self, count: usize)
        requires { count ≤ length self.old.rows }
        ensures { self.new ≡ record self.old { rows = drop count self.old.rows } }
    {
        drop_first(&mut self.rows, count);
    }

    /// Spends all calls, without CDRs. It allocates nothing.
    pub fn give_up(self) {
        let CallTable {
            entries,
            opened: _,
            live_count: _,
            index,
            busy,
            rows,
        } = self;
        drop(index);
        drop(busy);
        drop(rows);
        give_up_all(entries);
    }
}
