//! The live transactions with their indexes: their numbers, which rise, and shelves of their match keys and deadlines.
ghost use Rattle.std.specs.Prelude.{◌≡◌, ◌-◌, ◌+◌, ◌*◌, ◌^◌, ◌≤◌, ◌<◌, true, false, List, [], ◌++◌, ◌∷◌};
ghost use Rattle.std.specs.Prelude.{OnOk, OnErr, IfOk, IfErr, IfSome, IsTrue, length, remove, map, option_map, option_copied, position, Some, None};
ghost use Rattle.std.specs.List.{find, list_any};
ghost use Rattle.mmtel_timers.specs.Shelves.{Has, IsIndex, Rises, unboxed_items};
ghost use Rattle.mmtel_transaction.specs.declared.entries.Entry.{Entry};
ghost use Rattle.mmtel_transaction.specs.Changes.{after_ack_2xx, change_of_key, with_reliable};
ghost use Rattle.mmtel_transaction.specs.Results.{by_key, clients, is_client_with, is_full, is_merged_entry, is_of, is_server_with, next_due, servers};
ghost use Rattle.mmtel_transaction.specs.Table.{change_effect, due_entry_view, now_of, table_after_change};
ghost use Rattle.mmtel_transaction.specs.Indexes.{ack_match, indexed_call, due_first, IsPlaceOf, searched_key, match_cmp, FindsMerged, indexed_deadline, deadline_cmp};

use crate::entries::{Change, Entry, ReliableResponse, ack_2xx_entry, add_reliable, change_entry};
use crate::heads::Head;
use crate::match_keys::{DeadlineKey, MatchKey, MatchKeyRef, deadline_key_of, key_if};
use crate::shelving::{
    ack_search_key, call_search_key, client_search_key, insert_deadline, insert_match, key_at,
    merged_search_key, rearm, remove_deadline, remove_match, server_search_key,
};
use mmtel_base::NoMemory;
use mmtel_timers::{PartedShelf, Shelf, Steps};
use mmtel_types::limits::SERVER_TRANSACTIONS;
use std::alloc::Global;
use std::collections::VecDeque;
use std::marker::Model;
use std::sync::ledger::Ledger;

/// A deadline that is due.
#[derive(Clone, Copy)]
pub struct DueEntry<'a> {
    /// Its moment.
    pub at: u64,
    /// Its transaction.
    pub transaction: &'a Entry,
}

/// The live transactions, the oldest first; in contracts their list.
#[derive(Drop)]
pub struct Tables {
    entries: VecDeque<Box<Entry>>,
    /// The branches of server transactions, with sent-by and method.
    servers: PartedShelf<MatchKey>,
    /// The branches of client transactions, with the method.
    clients: PartedShelf<MatchKey>,
    /// The Call-IDs of server transactions, with From tag and CSeq.
    calls: PartedShelf<MatchKey>,
    /// The deadline keys of the transactions; one that waits for no deadline comes last.
    due: Shelf<DeadlineKey>,
}

impl Model for Tables {
    ghost use Rattle.std.specs.Prelude.{List};
    ghost use Rattle.mmtel_timers.specs.Shelves.{unboxed_items};
    ghost use Rattle.mmtel_transaction.specs.declared.entries.Entry.{Entry};
    ghost use Rattle.mmtel_transaction.specs.Indexes.{AreTables};

    ghost Value = { List Entry };

    ghost view = { λ t. unboxed_items t.entries.items };

    ghost invariant = { λ t. AreTables (unboxed_items t.entries.items) t.servers t.clients t.calls t.due };
}

impl Tables {
    /// No transactions. It allocates nothing.
    #[tactic(auto, using(crate::proofs::Pushed::no_tables))]
    pub fn new(alloc: Global) -> Tables
        ensures { result ≡ [] }
    {
        Tables {
            entries: VecDeque::new(alloc),
            servers: PartedShelf::new(alloc),
            clients: PartedShelf::new(alloc),
            calls: PartedShelf::new(alloc),
            due: Shelf::new(alloc),
        }
    }

    /// The transaction of a key.
    pub fn find(&self, key: u64) -> Option<&Entry>
        ensures found { option_map now_of result ≡ by_key key self.now }
        ensures rises { Rises (λ e. e.key) self.now }
    {
        match search(&self.entries, key) {
            Ok(place) => Some(self.entries[place].as_ref()),
            Err(_) => None,
        }
    }

    /// The server transaction of this branch, sent-by and method; None exactly where there is none.
    pub fn find_server<L: Ledger>(
        &self,
        branch: &[u8],
        sent_by: &[u8],
        method: &[u8],
        steps: &mut Steps<L>,
    ) -> Option<&Entry>
        ensures found { option_map now_of result ≡ find (is_server_with branch.now sent_by.now method.now) self.now }
        ensures cost { 2 ^ (steps.new - steps.old) ≤ 2 * servers self.now + 1 }
        ensures rise { steps.old ≤ steps.new }
    {
        match self.server_key(branch, sent_by, method, steps) {
            None => None,
            Some(key) => self.find(key),
        }
    }

    /// The first client transaction of this branch and method; None exactly where there is none.
    pub fn find_client<L: Ledger>(
        &self,
        branch: &[u8],
        method: &[u8],
        steps: &mut Steps<L>,
    ) -> Option<&Entry>
        ensures found { option_map now_of result ≡ find (is_client_with branch.now method.now) self.now }
        ensures cost { 2 ^ (steps.new - steps.old) ≤ 2 * clients self.now + 1 }
        ensures rise { steps.old ≤ steps.new }
    {
        match self.client_key(branch, method, steps) {
            None => None,
            Some(key) => self.find(key),
        }
    }

    /// The key of the server transaction of this branch, sent-by and method.
    fn server_key<L: Ledger>(
        &self,
        branch: &[u8],
        sent_by: &[u8],
        method: &[u8],
        steps: &mut Steps<L>,
    ) -> Option<u64>
        ensures found { result ≡ option_map (λ e. e.key) (find (is_server_with branch.now sent_by.now method.now) self.now) }
        ensures cost { 2 ^ (steps.new - steps.old) ≤ 2 * servers self.now + 1 }
        ensures rise { steps.old ≤ steps.new }
    {
        let mark = MatchKeyRef::of(branch, sent_by, method, 0, 0);
        key_if(self.servers.find(&mark, steps), &mark)
    }

    /// The key of the first client transaction of this branch and method.
    fn client_key<L: Ledger>(
        &self,
        branch: &[u8],
        method: &[u8],
        steps: &mut Steps<L>,
    ) -> Option<u64>
        ensures found { result ≡ option_map (λ e. e.key) (find (is_client_with branch.now method.now) self.now) }
        ensures cost { 2 ^ (steps.new - steps.old) ≤ 2 * clients self.now + 1 }
        ensures rise { steps.old ≤ steps.new }
    {
        let mark = MatchKeyRef::of(branch, b"", method, 0, 0);
        key_if(self.clients.find(&mark, steps), &mark)
    }

    /// Whether as many server transactions are live as may be.
    pub fn are_full(&self) -> bool
        ensures { result ≡ is_full self.now }
    {
        self.servers.len() >= SERVER_TRANSACTIONS
    }

    /// Whether another server transaction has the From tag, Call-ID and CSeq of this one.
    pub fn has_merged<L: Ledger>(&self, entry: &Entry, steps: &mut Steps<L>) -> bool
        ensures { result ≡ list_any (is_merged_entry entry.now) self.now }
    {
        let mark = merged_search_key(entry);
        let from = self.calls.seek(&mark, steps);
        has_other(&self.calls, from, &mark, entry.key, steps)
    }

    /// The first deadline that is due.
    pub fn next_of<L: Ledger>(&self, now: u64, steps: &mut Steps<L>) -> Option<DueEntry<'_>>
        ensures next { option_map due_entry_view result ≡ next_due now self.now }
        ensures cost { steps.new ≡ steps.old + 1 }
    {
        match due_now(self.due.look(0, steps), now) {
            None => None,
            Some((at, key)) => match self.find(key) {
                None => None,
                Some(of) => Some(DueEntry {
                    at,
                    transaction: of,
                }),
            },
        }
    }

    /// Adds a transaction at the end.
    ///
    /// # Errors
    ///
    /// Out of memory, and out of numbers where its key is not greater than all others; the transactions are then as before.
    pub fn push<L: Ledger>(
        &mut self,
        alloc: Global,
        entry: Entry,
        steps: &mut Steps<L>,
    ) -> Result<(), NoMemory>
        ensures ok { OnOk result (self.new ≡ self.old ++ entry ∷ []) }
        ensures err { OnErr result (self.new ≡ self.old) }
    {
        if !self.is_above(entry.key) {
            return Err(NoMemory);
        }
        if entry.is_server {
            self.push_server(alloc, entry, steps)
        } else {
            self.push_client(alloc, entry, steps)
        }
    }

    /// Whether a key is greater than all others.
    fn is_above(&self, key: u64) -> bool
        ensures { IsTrue result → (e : Entry) → Has e self.now → e.key < key }
    {
        match self.entries.back() {
            None => true,
            Some(last) => last.key < key,
        }
    }

    /// Adds a server transaction, whose key is greater than all others.
    fn push_server<L: Ledger>(
        &mut self,
        alloc: Global,
        entry: Entry,
        steps: &mut Steps<L>,
    ) -> Result<(), NoMemory>
        requires kind { entry.is_server ≡ true }
        requires above { (e : Entry) → Has e self.old → e.key < entry.key }
        ensures ok { OnOk result (self.new ≡ self.old ++ entry ∷ []) }
        ensures err { OnErr result (self.new ≡ self.old) }
    {
        let waits = deadline_key_of(&entry);
        let name = MatchKey::of_server(alloc, &entry)?;
        let call = MatchKey::of_call(alloc, &entry)?;
        let entry = boxed(alloc, entry)?;
        let due = insert_deadline(&mut self.due, waits, steps)?;
        let server = match insert_match(&mut self.servers, name, steps) {
            Ok(server) => server,
            Err(fault) => {
                self.due.remove(due);
                return Err(fault);
            }
        };
        let called = match insert_match(&mut self.calls, call, steps) {
            Ok(called) => called,
            Err(fault) => {
                self.due.remove(due);
                self.servers.remove(server);
                return Err(fault);
            }
        };
        match self.entries.push_back(entry) {
            Ok(()) => {}
            Err(_) => {
                self.due.remove(due);
                self.servers.remove(server);
                self.calls.remove(called);
                return Err(NoMemory);
            }
        }
        Ok(())
    }

    /// Adds a client transaction, whose key is greater than all others.
    fn push_client<L: Ledger>(
        &mut self,
        alloc: Global,
        entry: Entry,
        steps: &mut Steps<L>,
    ) -> Result<(), NoMemory>
        requires kind { entry.is_server ≡ false }
        requires above { (e : Entry) → Has e self.old → e.key < entry.key }
        ensures ok { OnOk result (self.new ≡ self.old ++ entry ∷ []) }
        ensures err { OnErr result (self.new ≡ self.old) }
    {
        let waits = deadline_key_of(&entry);
        let name = MatchKey::of_client(alloc, &entry)?;
        let entry = boxed(alloc, entry)?;
        let due = insert_deadline(&mut self.due, waits, steps)?;
        let client = match insert_match(&mut self.clients, name, steps) {
            Ok(client) => client,
            Err(fault) => {
                self.due.remove(due);
                return Err(fault);
            }
        };
        match self.entries.push_back(entry) {
            Ok(()) => {}
            Err(_) => {
                self.due.remove(due);
                self.clients.remove(client);
                return Err(NoMemory);
            }
        }
        Ok(())
    }

    /// Changes the transaction of a key, and removes it where the change ends it. It allocates nothing.
    pub fn change<L: Ledger>(&mut self, key: u64, change: Change, steps: &mut Steps<L>)
        ensures { self.new ≡ table_after_change key (change_effect change) self.old }
    {
        if let Ok(place) = search(&self.entries, key) {
            let entry = &mut *self.entries[place];
            let before = deadline_key_of(entry);
            change_entry(entry, change);
            if !entry.is_terminated {
                let after = deadline_key_of(entry);
                rearm(&mut self.due, &before, after, steps);
            } else if entry.is_server {
                remove_deadline(&mut self.due, &before, steps);
                remove_match(&mut self.servers, &server_search_key(entry), steps);
                remove_match(&mut self.calls, &call_search_key(entry), steps);
                remove_entry(&mut self.entries, place);
            } else {
                remove_deadline(&mut self.due, &before, steps);
                remove_match(&mut self.clients, &client_search_key(entry), steps);
                remove_entry(&mut self.entries, place);
            }
        }
    }

    /// A reliable response is sent in the server transaction of a key, and waits for its PRACK.
    ///
    /// # Errors
    ///
    /// Out of memory only; the transactions are then as before.
    pub fn add_reliable<L: Ledger>(
        &mut self,
        alloc: Global,
        key: u64,
        response: ReliableResponse,
        steps: &mut Steps<L>,
    ) -> Result<(), NoMemory>
        ensures ok { OnOk result (self.new ≡ map (change_of_key key (with_reliable response)) self.old) }
        ensures err { OnErr result (self.new ≡ self.old) }
    {
        match search(&self.entries, key) {
            Err(_) => {
                drop(response);
                Ok(())
            }
            Ok(place) => {
                let entry = &mut *self.entries[place];
                let before = deadline_key_of(entry);
                add_reliable(alloc, entry, response)?;
                let after = deadline_key_of(entry);
                rearm(&mut self.due, &before, after, steps);
                Ok(())
            }
        }
    }

    /// Receives the ACK of a 2xx. It allocates nothing.
    pub fn ack_2xx<L: Ledger>(&mut self, step: u64, head: &Head, steps: &mut Steps<L>)
        ensures { self.new ≡ map (after_ack_2xx step head.now) self.old }
    {
        let from = self.calls.seek(&ack_search_key(head), steps);
        ack_from(
            &mut self.entries,
            &mut self.due,
            &self.calls,
            from,
            step,
            head,
            steps,
        );
    }
}

/// The position of the transaction of a key, or the one that it would have.
fn search(entries: &VecDeque<Box<Entry>>, key: u64) -> Result<usize, usize>
    requires rises { Rises (λ e. e.key) (unboxed_items entries.now.items) }
    ensures found { IfOk result (λ i. position (is_of key) (unboxed_items entries.now.items) ≡ Some i) }
    ensures absent { IfErr result (λ i. position (is_of key) (unboxed_items entries.now.items) ≡ None) }
{
    match search_from_end(entries, key) {
        Some(place) => Ok(place),
        None => entries.binary_search_by_key(&key, |e| e.key),
    }
}

/// The position of a transaction if none of those that were opened after it has ended: as far from the last one as its key is from the key of that one. So a recent transaction
/// is found by one comparison.
fn search_from_end(entries: &VecDeque<Box<Entry>>, key: u64) -> Option<usize>
    requires rises { Rises (λ e. e.key) (unboxed_items entries.now.items) }
    ensures { IfSome result (λ i. position (is_of key) (unboxed_items entries.now.items) ≡ Some i) }
{
    let last = match entries.back() {
        None => return None,
        Some(last) => last.key,
    };
    if last < key {
        return None;
    }
    let Ok(behind) = usize::try_from(last - key) else {
        return None;
    };
    if entries.len() <= behind {
        return None;
    }
    let place = entries.len() - 1 - behind;
    if entries[place].key == key {
        Some(place)
    } else {
        None
    }
}

/// Removes the transaction at a position.
fn remove_entry(entries: &mut VecDeque<Box<Entry>>, place: usize)
    requires { place < length entries.old.items }
    ensures { entries.new.items ≡ remove entries.old.items place }
{
    drop(entries.remove(place));
}

/// A transaction in a block of its own, so that the tables move few bytes.
fn boxed(alloc: Global, entry: Entry) -> Result<Box<Entry>, NoMemory>
    ensures value { IfOk result (λ b. b.value ≡ entry) }
{
    match Box::new(alloc, entry) {
        Ok(boxed) => Ok(boxed),
        Err(_) => Err(NoMemory),
    }
}

/// The moment and the key of the first deadline, if it is due.
fn due_now(first: Option<&DeadlineKey>, now: u64) -> Option<(u64, u64)>
    ensures { result ≡ due_first now (option_copied first.entry) }
{
    match first {
        None => None,
        Some(first) => {
            if first.at <= now as u128 {
                Some((first.at as u64, first.key))
            } else {
                None
            }
        }
    }
}

/// Whether, of the match keys from a position on that have the same parts as a given one, one belongs to another transaction than that of a key.
fn has_other<L: Ledger>(
    calls: &PartedShelf<MatchKey>,
    from: usize,
    mark: &MatchKeyRef<'_>,
    key: u64,
    steps: &mut Steps<L>,
) -> bool
    ensures { FindsMerged (searched_key mark.now) key calls.now from result }
{
    for place in from..calls.len() {
        match key_at(calls, place, mark, steps) {
            None => return false,
            Some(other) => {
                if other != key {
                    return true;
                }
            }
        }
    }
    false
}

/// The transaction of a key receives the ACK of a 2xx, if the ACK acknowledges the 2xx of that transaction.
fn ack_key<L: Ledger>(
    entries: &mut VecDeque<Box<Entry>>,
    due: &mut Shelf<DeadlineKey>,
    key: u64,
    step: u64,
    head: &Head,
    steps: &mut Steps<L>,
)
    requires rises { Rises (λ e. e.key) (unboxed_items entries.old.items) }
    requires due { IsIndex indexed_deadline deadline_cmp (unboxed_items entries.old.items) due.old }
    ensures entries { unboxed_items entries.new.items ≡ map (change_of_key key (after_ack_2xx step head.now)) (unboxed_items entries.old.items) }
    ensures due { IsIndex indexed_deadline deadline_cmp (unboxed_items entries.new.items) due.new }
{
    if let Ok(place) = search(entries, key) {
        let entry = &mut *entries[place];
        let before = deadline_key_of(entry);
        ack_2xx_entry(entry, step, head);
        let after = deadline_key_of(entry);
        rearm(due, &before, after, steps);
    }
}

/// The INVITEs of the call and number of the ACK of a 2xx, whose match keys begin at a position, receive it.
fn ack_from<L: Ledger>(
    entries: &mut VecDeque<Box<Entry>>,
    due: &mut Shelf<DeadlineKey>,
    calls: &PartedShelf<MatchKey>,
    from: usize,
    step: u64,
    head: &Head,
    steps: &mut Steps<L>,
)
    requires rises { Rises (λ e. e.key) (unboxed_items entries.old.items) }
    requires due { IsIndex indexed_deadline deadline_cmp (unboxed_items entries.old.items) due.old }
    requires calls { IsIndex indexed_call match_cmp (unboxed_items entries.old.items) calls.now }
    requires place { IsPlaceOf (ack_match head.now) calls.now from }
    ensures entries { unboxed_items entries.new.items ≡ map (after_ack_2xx step head.now) (unboxed_items entries.old.items) }
    ensures due { IsIndex indexed_deadline deadline_cmp (unboxed_items entries.new.items) due.new }
{
    let mark = ack_search_key(head);
    for place in from..calls.len() {
        match key_at(calls, place, &mark, steps) {
            None => return,
            Some(key) => ack_key(entries, due, key, step, head, steps),
        }
    }
}
