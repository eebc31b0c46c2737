//! The live transactions, and the look-ups in them.
ghost use Rattle.std.specs.Prelude.{◌≡◌, [], ◌++◌, ◌∷◌, ◌^◌, ◌-◌, ◌*◌, ◌+◌, ◌≤◌, OnOk, OnErr, IfOk, IsTrue, false, map, option_map, Some};
ghost use Rattle.std.specs.List.{find, list_any};
ghost use Rattle.mmtel_transaction.specs.Changes.{after_ack_2xx, change_of_key, with_reliable};
ghost use Rattle.mmtel_transaction.specs.Heads.{is_ack, is_cancel};
ghost use Rattle.mmtel_transaction.specs.Results.{by_key, clients, is_client_of, is_client_with, is_full, is_invite_of, is_merged, is_merged_entry, last_sent, retransmission_for};
ghost use Rattle.mmtel_transaction.specs.Results.{ack_class, class_of, is_server_of, is_server_with, key_of, next_due, peer_of, request_class, response_class};
ghost use Rattle.mmtel_transaction.specs.Results.{bind_entry, due_result, retransmitted_text, servers, state_text, upcoming_of};
ghost use Rattle.mmtel_transaction.specs.Table.{change_effect, due_entry_view, now_of, table_after_change};

use crate::entries::{
    Change, Entry, ReliableResponse, armed_by, is_ending, response_due, retransmission_of,
};
use crate::heads::Head;
use crate::message_class::MessageClass;
use crate::tables::{DueEntry, Tables};
use crate::words::{Due, TKey};
use mmtel_base::{NoMemory, Text};
use mmtel_sip_rules::{is_refusal, is_response_retransmitted, is_success};
use mmtel_timers::Steps;
use mmtel_types::Peer;
use std::alloc::Global;
use std::marker::Model;
use std::sync::ledger::Ledger;

/// The live transactions, the oldest first; in contracts their list.
#[derive(Drop)]
pub struct Entries {
    kept: Option<Tables>,
}

impl Model for Entries {
    ghost use Rattle.std.specs.Prelude.{List, []};
    ghost use Rattle.std.specs.Option.{option_map_or};
    ghost use Rattle.mmtel_transaction.specs.declared.entries.Entry.{Entry};

    ghost Value = { List Entry };

    ghost view = { λ t. option_map_or (λ v. v) t.kept [] };
}

impl Entries {
    /// No transactions. It allocates nothing.
    pub fn new() -> Entries
        ensures { result ≡ [] }
    {
        Entries { kept: None }
    }

    /// Adds a transaction at the end.
    ///
    /// # Errors
    ///
    /// Out of memory, and out of numbers where its key is not greater than all others; the transactions are then as before.
    pub fn push<L: Ledger>(
        &mut self,
        alloc: Global,
        entry: Entry,
        steps: &mut Steps<L>,
    ) -> Result<(), NoMemory>
        ensures ok { OnOk result (self.new ≡ self.old ++ entry ∷ []) }
        ensures err { OnErr result (self.new ≡ self.old) }
    {
        let mut kept = match self.kept.take() {
            Some(kept) => kept,
            None => Tables::new(alloc),
        };
        let pushed = kept.push(alloc, entry, steps);
        match self.kept.replace(kept) {
            Some(_) => unreachable!(),
            None => {}
        }
        pushed
    }

    /// Changes the transaction of a key, and removes it where the change ends it.
    pub fn change<L: Ledger>(&mut self, key: u64, change: Change, steps: &mut Steps<L>)
        ensures { self.new ≡ table_after_change key (change_effect change) self.old }
    {
        match &mut self.kept {
            Some(kept) => kept.change(key, change, steps),
            None => {}
        }
    }

    /// A reliable response is sent in the server transaction of a key, and waits for its PRACK.
    ///
    /// # Errors
    ///
    /// Out of memory only; the transactions are then as before.
    pub fn add_reliable<L: Ledger>(
        &mut self,
        alloc: Global,
        key: u64,
        response: ReliableResponse,
        steps: &mut Steps<L>,
    ) -> Result<(), NoMemory>
        ensures ok { OnOk result (self.new ≡ map (change_of_key key (with_reliable response)) self.old) }
        ensures err { OnErr result (self.new ≡ self.old) }
    {
        match &mut self.kept {
            Some(kept) => kept.add_reliable(alloc, key, response, steps),
            None => {
                drop(response);
                Ok(())
            }
        }
    }

    /// Receives the ACK of a 2xx.
    pub fn ack_2xx<L: Ledger>(&mut self, step: u64, head: &Head, steps: &mut Steps<L>)
        ensures { self.new ≡ map (after_ack_2xx step head.now) self.old }
    {
        match &mut self.kept {
            Some(kept) => kept.ack_2xx(step, head, steps),
            None => {}
        }
    }

    /// The transaction of a key.
    fn find(&self, key: u64) -> Option<&Entry>
        ensures { option_map now_of result ≡ by_key key self.now }
    {
        match &self.kept {
            Some(kept) => kept.find(key),
            None => None,
        }
    }

    /// The server transaction of this branch, sent-by and method; None exactly where there is none.
    pub fn find_server<L: Ledger>(
        &self,
        branch: &[u8],
        sent_by: &[u8],
        method: &[u8],
        steps: &mut Steps<L>,
    ) -> Option<&Entry>
        ensures found { option_map now_of result ≡ find (is_server_with branch.now sent_by.now method.now) self.now }
        ensures cost { 2 ^ (steps.new - steps.old) ≤ 2 * servers self.now + 1 }
        ensures rise { steps.old ≤ steps.new }
    {
        match &self.kept {
            Some(kept) => kept.find_server(branch, sent_by, method, steps),
            None => None,
        }
    }

    /// The first client transaction of this branch and method; None exactly where there is none.
    pub fn find_client<L: Ledger>(
        &self,
        branch: &[u8],
        method: &[u8],
        steps: &mut Steps<L>,
    ) -> Option<&Entry>
        ensures found { option_map now_of result ≡ find (is_client_with branch.now method.now) self.now }
        ensures cost { 2 ^ (steps.new - steps.old) ≤ 2 * clients self.now + 1 }
        ensures rise { steps.old ≤ steps.new }
    {
        match &self.kept {
            Some(kept) => kept.find_client(branch, method, steps),
            None => None,
        }
    }

    /// Whether as many server transactions are live as may be.
    fn are_full(&self) -> bool
        ensures { result ≡ is_full self.now }
    {
        match &self.kept {
            Some(kept) => kept.are_full(),
            None => false,
        }
    }

    /// Whether another server transaction has the From tag, Call-ID and CSeq of this one.
    fn has_merged<L: Ledger>(&self, entry: &Entry, steps: &mut Steps<L>) -> bool
        ensures { result ≡ list_any (is_merged_entry entry.now) self.now }
    {
        match &self.kept {
            Some(kept) => kept.has_merged(entry, steps),
            None => false,
        }
    }

    /// The first deadline that is due.
    pub fn next_of<L: Ledger>(&self, now: u64, steps: &mut Steps<L>) -> Option<DueEntry<'_>>
        ensures next { option_map due_entry_view result ≡ next_due now self.now }
        ensures cost { steps.new ≤ steps.old + 1 }
        ensures rise { steps.old ≤ steps.new }
    {
        match &self.kept {
            Some(kept) => kept.next_of(now, steps),
            None => None,
        }
    }
}

/// The text that is retransmitted.
fn retransmitted_text(alloc: Global, entry: &Entry) -> Result<Text, NoMemory>
    ensures { IfOk result (λ t. t ≡ retransmitted_text entry.now) }
{
    match response_due(entry) {
        Some(answer) => Text::of(alloc, answer.text.bytes()),
        None => state_text(alloc, entry),
    }
}

/// The text that a transaction retransmits by its state.
fn state_text(alloc: Global, entry: &Entry) -> Result<Text, NoMemory>
    ensures { IfOk result (λ t. t ≡ state_text entry.now) }
{
    if entry.is_server {
        match &entry.last {
            None => Ok(Text::new()),
            Some(text) => Text::of(alloc, text.bytes()),
        }
    } else {
        Text::of(alloc, entry.request.bytes())
    }
}

/// The result of a deadline that fires.
pub fn due_result(alloc: Global, found: DueEntry<'_>) -> Result<Due, NoMemory>
    ensures { IfOk result (λ d. d ≡ due_result (Some (due_entry_view found.entry))) }
{
    let e = found.transaction;
    if retransmission_of(e).is_some() {
        Ok(Due::Again(e.peer, found.at, retransmitted_text(alloc, e)?))
    } else if is_ending(e.state) {
        Ok(Due::Over(TKey(e.key), found.at))
    } else {
        Ok(Due::Silent {
            key: TKey(e.key),
            branch: Text::of(alloc, e.head.branch.bytes())?,
            method: Text::of(alloc, e.head.method.bytes())?,
            at: found.at,
        })
    }
}

/// The moment and the step of the first deadline that is due.
pub fn next_at<L: Ledger>(entries: &Entries, now: u64, steps: &mut Steps<L>) -> Option<(u64, u64)>
    ensures next { result ≡ upcoming_of (next_due now entries.now) }
    ensures cost { steps.new ≤ steps.old + 1 }
    ensures rise { steps.old ≤ steps.new }
{
    match entries.next_of(now, steps) {
        None => None,
        Some(found) => Some((found.at, armed_by(found.transaction).0)),
    }
}

/// The server transaction of this method, and of the branch and sent-by of a request.
fn find_server<'a, L: Ledger>(
    entries: &'a Entries,
    head: &Head,
    method: &[u8],
    steps: &mut Steps<L>,
) -> Option<&'a Entry>
    ensures { option_map now_of result ≡ find (is_server_with head.now.branch head.now.sent_by method.now) entries.now }
{
    entries.find_server(head.branch.bytes(), head.sent_by.bytes(), method, steps)
}

/// The client transaction of a response.
fn find_client<'a, L: Ledger>(
    entries: &'a Entries,
    head: &Head,
    steps: &mut Steps<L>,
) -> Option<&'a Entry>
    ensures { option_map now_of result ≡ find (is_client_of head.now) entries.now }
{
    entries.find_client(head.branch.bytes(), head.method.bytes(), steps)
}

/// The class of an ACK.
fn classify_ack<L: Ledger>(entries: &Entries, head: &Head, steps: &mut Steps<L>) -> MessageClass
    ensures { IsTrue (is_ack head.now) → result ≡ ack_class (find (is_server_of head.now) entries.now) }
{
    match find_server(entries, head, b"INVITE", steps) {
        None => MessageClass::AckOf2xx,
        Some(e) => if e.is_refused {
            MessageClass::Acked(e.key)
        } else {
            MessageClass::AckOf2xx
        },
    }
}

/// The class of another request.
fn classify_request<L: Ledger>(entries: &Entries, head: &Head, steps: &mut Steps<L>) -> MessageClass
    ensures { is_ack head.now ≡ false → result ≡ request_class (is_full entries.now) (find (is_server_of head.now) entries.now) }
{
    match find_server(entries, head, head.method.bytes(), steps) {
        None => if entries.are_full() {
            MessageClass::Full
        } else {
            MessageClass::Fresh
        },
        Some(e) => MessageClass::Repeat(e.key),
    }
}

/// The class of a response.
fn classify_response<L: Ledger>(
    entries: &Entries,
    head: &Head,
    steps: &mut Steps<L>,
) -> MessageClass
    ensures { result ≡ response_class head.now (find (is_client_of head.now) entries.now) }
{
    match find_client(entries, head, steps) {
        None => MessageClass::Stray,
        Some(e) => {
            if e.head.is_invite() && e.is_refused && is_refusal(head.status) {
                MessageClass::RepeatedFinal(e.key)
            } else {
                MessageClass::Answer(e.key)
            }
        }
    }
}

/// The class of a message.
pub fn classify<L: Ledger>(entries: &Entries, head: &Head, steps: &mut Steps<L>) -> MessageClass
    ensures { result ≡ class_of head.now entries.now }
{
    if head.is_request {
        if head.is_ack() {
            classify_ack(entries, head, steps)
        } else {
            classify_request(entries, head, steps)
        }
    } else {
        classify_response(entries, head, steps)
    }
}

/// What a transaction sent last, and to whom.
fn last_sent(alloc: Global, entry: &Entry) -> Result<Option<(Peer, Text)>, NoMemory>
    ensures { IfOk result (λ g. g ≡ last_sent entry.now) }
{
    match &entry.last {
        None => Ok(None),
        Some(text) => {
            let text = Text::of(alloc, text.bytes())?;
            Ok(Some((entry.peer, text)))
        }
    }
}

/// What is retransmitted when the request of this transaction is received again.
fn retransmission_for(
    alloc: Global,
    entry: &Entry,
    peer: Peer,
) -> Result<Option<(Peer, Text)>, NoMemory>
    ensures { IfOk result (λ g. g ≡ retransmission_for peer entry.now) }
{
    let succeeded = entry.head.is_invite() && is_success(entry.final_status);
    if is_response_retransmitted(entry.peer, peer, entry.is_acked, succeeded) {
        last_sent(alloc, entry)
    } else {
        Ok(None)
    }
}

/// What is retransmitted when the request of the transaction of a key is received again.
pub fn retransmission_of_key(
    alloc: Global,
    entries: &Entries,
    key: u64,
    peer: Peer,
) -> Result<Option<(Peer, Text)>, NoMemory>
    ensures { IfOk result (λ g. g ≡ bind_entry (retransmission_for peer) (by_key key entries.now)) }
{
    match entries.find(key) {
        None => Ok(None),
        Some(e) => retransmission_for(alloc, e, peer),
    }
}

/// What is retransmitted when the final of the transaction of a key is received again.
pub fn last_sent_of_key(
    alloc: Global,
    entries: &Entries,
    key: u64,
) -> Result<Option<(Peer, Text)>, NoMemory>
    ensures { IfOk result (λ g. g ≡ bind_entry last_sent (by_key key entries.now)) }
{
    match entries.find(key) {
        None => Ok(None),
        Some(e) => last_sent(alloc, e),
    }
}

/// The key of the INVITE that a CANCEL cancels; it is looked up for a CANCEL alone.
pub fn cancelled_key<L: Ledger>(
    entries: &Entries,
    head: &Head,
    steps: &mut Steps<L>,
) -> Option<TKey>
    ensures { IsTrue (is_cancel head.now) → result ≡ option_map key_of (find (is_invite_of head.now) entries.now) }
{
    if !head.is_cancel() {
        return None;
    }
    match find_server(entries, head, b"INVITE", steps) {
        None => None,
        Some(e) => Some(TKey(e.key)),
    }
}

/// Whether the request of the transaction of a key is merged with that of another live one (RFC 3261 §8.2.2.2).
pub fn is_merged<L: Ledger>(entries: &Entries, key: u64, steps: &mut Steps<L>) -> bool
    ensures { result ≡ is_merged key entries.now }
{
    match entries.find(key) {
        None => false,
        Some(e) => entries.has_merged(e, steps),
    }
}

/// The peer of the transaction of a key.
pub fn peer_at(entries: &Entries, key: u64) -> Option<Peer>
    ensures { result ≡ peer_of key entries.now }
{
    match entries.find(key) {
        None => None,
        Some(e) => Some(e.peer),
    }
}
