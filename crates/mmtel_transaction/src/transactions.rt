//! The transactions.
ghost use Rattle.std.specs.Prelude.{◌≡◌, [], ◌∷◌, ◌+◌, ◌-◌, ◌*◌, ◌^◌, ◌≤◌, ◌<◌, IfErr, IfOk, List, length, map, OnErr, OnOk, option_map, Some};
ghost use Rattle.std.specs.List.{find};
ghost use Rattle.mmtel_message.specs.Texts.{message_text};
ghost use Rattle.mmtel_transaction.specs.Heads.{head_of};
ghost use Rattle.mmtel_transaction.specs.Operations.{DidAck, DidAsk, DidBegin, DidReply, DidSettle, TransactionOp, live, openings};
ghost use Rattle.mmtel_transaction.specs.Results.{after_firing, after_hear, class_of, clients, hear_result, is_client_with, is_merged, is_server_with, key_of, next_due, peer_of};
ghost use Rattle.mmtel_transaction.specs.Results.{due_result, opening_result, servers, tkey, upcoming_of};
ghost use Rattle.mmtel_transaction.specs.Represents.{Does, HasCapacity, IsRefusal, MayOpen, Represents, Stays};
ghost use Rattle.mmtel_transaction.specs.Changes.{change_of_key, reliable_response_of, with_reliable_if};
ghost use Rattle.mmtel_transaction.specs.Table.{HearsAs};
ghost use Rattle.mmtel_transaction.specs.declared.message_class.MessageClass.TheVariants.{Acked, AckOf2xx, Answer, Fresh, Repeat, RepeatedFinal, Stray};

use crate::entries::{Change, ReliableResponse, new_client_entry, new_server_entry, reply_change};
use crate::heads::{Head, reliable_number, status_and_tag};
use crate::message_class::MessageClass;
use crate::table::{
    Entries, cancelled_key, classify, due_result, is_merged, last_sent_of_key, next_at, peer_at,
    retransmission_of_key,
};
use crate::words::{Due, HearFault, Heard, TKey};
use mmtel_base::{NoMemory, Text};
use mmtel_message::Msg;
use mmtel_timers::Steps;
use mmtel_types::{Moment, Peer};
use std::alloc::Global;
use std::mem;
use std::sync::ledger::Ledger;

/// The transactions of a server, which represent the operations that were called.
#[derive(Drop)]
pub struct Transactions {
    /// The step number of deadlines that are armed from now on.
    step: u64,
    /// How many requests and responses were sent.
    send_count: u128,
    /// How many transactions were opened, which is the number of the next one.
    next: u64,
    /// The live transactions, the oldest first.
    entries: Entries,
    /// The text of the message that was sent last, until it is handed out.
    outgoing: Text,
}

impl Transactions {
    /// No transactions. It allocates nothing.
    pub fn new() -> Transactions
        ensures represents { Represents result [] }
    {
        Transactions {
            step: 0,
            send_count: 0,
            next: 0,
            entries: Entries::new(),
            outgoing: Text::new(),
        }
    }

    /// Deadlines that are armed from now on have this step number, which is at least that of the `begin` before.
    pub fn begin(&mut self, step: u64)
        ensures done { (h : List TransactionOp) → Represents self.old h → Represents self.new (DidBegin step ∷ h) }
    {
        self.step = step;
    }

    /// The text of the message that `ask`, `reply` or `ack` was given last, which is to be sent now; empty where it was handed out before. It allocates nothing.
    ///
    /// A message is printed once: the transaction keeps a copy of this text.
    pub fn take_outgoing(&mut self) -> Text
        ensures text { result ≡ self.old.outgoing }
        ensures represents { (h : List TransactionOp) → Represents self.old h → Represents self.new h }
    {
        mem::replace(&mut self.outgoing, Text::new())
    }

    /// Sends a request in a client transaction of its own, whose key is returned.
    ///
    /// # Errors
    ///
    /// Out of memory only; the transactions are then as before.
    pub fn ask<L: Ledger>(
        &mut self,
        alloc: Global,
        p: Peer,
        m: &Msg,
        now: Moment,
        steps: &mut Steps<L>,
    ) -> Result<TKey, NoMemory>
        ensures done { IfOk result (λ key. MayOpen self.old self.new (λ h. DidAsk p m.now now ∷ h) (λ h. key ≡ tkey (length (openings h)))) }
        ensures offered { OnOk result (self.new.outgoing ≡ message_text m.now) }
        ensures err { OnErr result ((h : List TransactionOp) → Represents self.old h → Represents self.new h) }
    {
        let asked = Head::of(alloc, m)?;
        let text = m.text(alloc)?;
        let kept = text.copied(alloc)?;
        let key = self.next;
        self.entries.push(
            alloc,
            new_client_entry(self.step, self.send_count, key, p, asked, kept, now.ms()),
            steps,
        )?;
        self.send_count = self.send_count.saturating_add(1);
        self.next = self.next.saturating_add(1);
        self.outgoing = text;
        Ok(TKey(key))
    }

    /// The reliable response that a response is, which waits for its PRACK (RFC 3262 §3); None for any other response.
    fn reliable_response(
        &self,
        alloc: Global,
        message: &Msg,
        text: &Text,
        now: u64,
    ) -> Result<Option<ReliableResponse>, NoMemory>
        ensures { IfOk result (λ answer. answer ≡ reliable_response_of self.now.step self.now.send_count message.now text.now now) }
    {
        match reliable_number(message) {
            None => Ok(None),
            Some(own) => Ok(Some(ReliableResponse {
                rseq: own,
                text: text.copied(alloc)?,
                start: now,
                retransmissions: 0,
                step: self.step,
                order: self.send_count,
            })),
        }
    }

    /// This reliable response, if any, is sent in the transaction of a key.
    fn add_reliable<L: Ledger>(
        &mut self,
        alloc: Global,
        key: u64,
        response: Option<ReliableResponse>,
        steps: &mut Steps<L>,
    ) -> Result<(), NoMemory>
        ensures ok { OnOk result (self.new ≡ record self.old { entries = map (change_of_key key (with_reliable_if response)) self.old.entries }) }
        ensures err { OnErr result (self.new ≡ self.old) }
    {
        match response {
            None => Ok(()),
            Some(response) => self.entries.add_reliable(alloc, key, response, steps),
        }
    }

    /// Sends a response in a live server transaction without a final response; in any other nothing changes. A reliable provisional response, which has a number by its RSeq
    /// line, is retransmitted until it is settled, or a final response is sent (RFC 3262 §3).
    ///
    /// # Errors
    ///
    /// Out of memory only; the transactions are then as before.
    pub fn reply<L: Ledger>(
        &mut self,
        alloc: Global,
        key: TKey,
        m: &Msg,
        now: Moment,
        steps: &mut Steps<L>,
    ) -> Result<(), NoMemory>
        ensures done { OnOk result ((h : List TransactionOp) → Represents self.old h → Represents self.new (DidReply key.0 m.now now ∷ h)) }
        ensures offered { OnOk result (self.new.outgoing ≡ message_text m.now) }
        ensures err { OnErr result ((h : List TransactionOp) → Represents self.old h → Represents self.new h) }
    {
        let said = status_and_tag(alloc, m)?;
        let text = m.text(alloc)?;
        let kept = text.copied(alloc)?;
        let answer = self.reliable_response(alloc, m, &text, now.ms())?;
        self.add_reliable(alloc, key.0, answer, steps)?;
        let change = reply_change(self.step, self.send_count, said, kept, now.ms());
        self.entries.change(key.0, change, steps);
        self.send_count = self.send_count.saturating_add(1);
        self.outgoing = text;
        Ok(())
    }

    /// Keeps the ACK of the non-2xx final that this live client INVITE transaction received, to be sent again when that final is received again; in any other transaction nothing
    /// changes.
    ///
    /// # Errors
    ///
    /// Out of memory only; the transactions are then as before.
    pub fn ack<L: Ledger>(
        &mut self,
        alloc: Global,
        key: TKey,
        m: &Msg,
        steps: &mut Steps<L>,
    ) -> Result<(), NoMemory>
        ensures done { OnOk result ((h : List TransactionOp) → Represents self.old h → Represents self.new (DidAck key.0 m.now ∷ h)) }
        ensures offered { OnOk result (self.new.outgoing ≡ message_text m.now) }
        ensures err { OnErr result ((h : List TransactionOp) → Represents self.old h → Represents self.new h) }
    {
        let text = m.text(alloc)?;
        let kept = text.copied(alloc)?;
        self.entries.change(key.0, Change::KeepAck(kept), steps);
        self.outgoing = text;
        Ok(())
    }

    /// The reliable response of this number in the server transaction of a key, or with None each of them, is no longer retransmitted (RFC 3262 §3). Nothing changes where there
    /// is none. It allocates nothing.
    pub fn settle<L: Ledger>(&mut self, k: TKey, own: Option<u32>, steps: &mut Steps<L>)
        ensures done { (h : List TransactionOp) → Represents self.old h → Represents self.new (DidSettle k.0 own ∷ h) }
    {
        self.entries.change(k.0, Change::Settle(own), steps);
    }

    /// Receives a message: returns which transaction it opens or belongs to, and what is retransmitted because of it.
    ///
    /// # Errors
    ///
    /// `Full`, which hands the message back, exactly where it would open a server transaction and 16,384 are live; and out of memory. The transactions are then as before.
    pub fn hear<L: Ledger>(
        &mut self,
        alloc: Global,
        p: Peer,
        m: Msg,
        now: Moment,
        steps: &mut Steps<L>,
    ) -> Result<Heard, HearFault>
        ensures done { IfOk result (λ said. MayOpen self.old self.new (λ h. after_hear h p m now) (λ h. Some said ≡ hear_result h p m)) }
        ensures refused { IfErr result (λ fault. Stays self.old self.new (λ h. IsRefusal (class_of (head_of m) (live h)) m fault)) }
    {
        let head = Head::of(alloc, &m)?;
        let taken = classify(&self.entries, &head, steps);
        self.hear_as(alloc, p, m, head, now.ms(), taken, steps)
    }

    /// The first deadline that is not later than now fires: by its moment, then the step that armed it, then the order in which its message was sent.
    ///
    /// # Errors
    ///
    /// Out of memory only; the transactions are then as before.
    pub fn due<L: Ledger>(
        &mut self,
        alloc: Global,
        now: Moment,
        steps: &mut Steps<L>,
    ) -> Result<Due, NoMemory>
        ensures done { IfOk result (λ said. Does self.old self.new (λ h. after_firing h (next_due now (live h))) (λ h. said ≡ due_result (next_due now (live h)))) }
        ensures err { OnErr result ((h : List TransactionOp) → Represents self.old h → Represents self.new h) }
    {
        match self.entries.next_of(now.ms(), steps) {
            None => Ok(Due::Nothing),
            Some(found) => {
                let said = due_result(alloc, found)?;
                let key = found.transaction.key;
                self.entries.change(key, Change::Fire(self.step), steps);
                Ok(said)
            }
        }
    }

    /// The moment and the step of the deadline that `due` would take; None exactly where there is none. It examines one item at most.
    pub fn upcoming<L: Ledger>(&self, now: Moment, steps: &mut Steps<L>) -> Option<(u64, u64)>
        ensures next { (h : List TransactionOp) → Represents self.now h → result ≡ upcoming_of (next_due now (live h)) }
        ensures cost { steps.new ≤ steps.old + 1 }
        ensures rise { steps.old ≤ steps.new }
    {
        next_at(&self.entries, now.ms(), steps)
    }

    /// The peer from which the request of a live server transaction came, or to which that of a live client transaction was sent; None exactly where the transaction of the key
    /// is not live. It is found by its number, without a step.
    pub fn peer<L: Ledger>(&self, key: TKey, steps: &mut Steps<L>) -> Option<Peer>
        ensures live { (h : List TransactionOp) → Represents self.now h → result ≡ peer_of key.0 (live h) }
        ensures cost { steps.new ≡ steps.old }
    {
        peer_at(&self.entries, key.0)
    }

    /// Whether another live server transaction has the From tag, Call-ID and CSeq of this one (RFC 3261 §8.2.2.2).
    pub fn merged<L: Ledger>(&self, key: TKey, steps: &mut Steps<L>) -> bool
        ensures live { (h : List TransactionOp) → Represents self.now h → result ≡ is_merged key.0 (live h) }
    {
        is_merged(&self.entries, key.0, steps)
    }

    /// The live server transaction of this first Via branch, sent-by and method; None exactly where there is none.
    ///
    /// Of n live server transactions it examines so few that 2 to their number is at most 2n + 1.
    pub fn server_of<L: Ledger>(
        &self,
        branch: &[u8],
        sent_by: &[u8],
        method: &[u8],
        steps: &mut Steps<L>,
    ) -> Option<TKey>
        ensures found { (h : List TransactionOp) → Represents self.now h → result ≡ option_map key_of (find (is_server_with branch.now sent_by.now method.now) (live h)) }
        ensures cost { (h : List TransactionOp) → Represents self.now h → 2 ^ (steps.new - steps.old) ≤ 2 * servers (live h) + 1 }
        ensures rise { steps.old ≤ steps.new }
    {
        match self.entries.find_server(branch, sent_by, method, steps) {
            None => None,
            Some(e) => Some(TKey(e.key)),
        }
    }

    /// Of the live client transactions of this branch and method, the one whose request was sent first; None exactly where there is none.
    ///
    /// Of n live client transactions it examines so few that 2 to their number is at most 2n + 1.
    pub fn client_of<L: Ledger>(
        &self,
        branch: &[u8],
        method: &[u8],
        steps: &mut Steps<L>,
    ) -> Option<TKey>
        ensures found { (h : List TransactionOp) → Represents self.now h → result ≡ option_map key_of (find (is_client_with branch.now method.now) (live h)) }
        ensures cost { (h : List TransactionOp) → Represents self.now h → 2 ^ (steps.new - steps.old) ≤ 2 * clients (live h) + 1 }
        ensures rise { steps.old ≤ steps.new }
    {
        match self.entries.find_client(branch, method, steps) {
            None => None,
            Some(first) => Some(TKey(first.key)),
        }
    }
}

/// The result for a request that opens a server transaction.
fn opening_result(key: u64, invite: Option<TKey>, is_cancel: bool, message: Msg) -> Heard
    ensures { result ≡ opening_result is_cancel key invite message }
{
    if is_cancel {
        Heard::Cancel(TKey(key), invite, message)
    } else {
        Heard::Fresh(TKey(key), message)
    }
}

/// One method for each class of a message. Its parameter `head` is what was read of the message.
impl Transactions {
    /// Receives a request that opens a server transaction.
    fn hear_fresh<L: Ledger>(
        &mut self,
        alloc: Global,
        peer: Peer,
        message: Msg,
        head: Head,
        now: u64,
        steps: &mut Steps<L>,
    ) -> Result<Heard, NoMemory>
        ensures done { head ≡ head_of message → IfOk result (λ said. (h : List TransactionOp) → HasCapacity h → HearsAs self.old self.new peer message now Fresh said h) }
        ensures err { OnErr result ((h : List TransactionOp) → Represents self.old h → Represents self.new h) }
    {
        let key = self.next;
        let invite = cancelled_key(&self.entries, &head, steps);
        let is_cancel = head.is_cancel();
        self.entries.push(
            alloc,
            new_server_entry(self.step, key, peer, head, now),
            steps,
        )?;
        self.next = self.next.saturating_add(1);
        Ok(opening_result(key, invite, is_cancel, message))
    }

    /// Receives a retransmitted request.
    fn hear_repeat(
        &self,
        alloc: Global,
        peer: Peer,
        message: Msg,
        now: u64,
        key: u64,
    ) -> Result<Heard, NoMemory>
        ensures { IfOk result (λ said. (h : List TransactionOp) → HearsAs self.now self.now peer message now (Repeat key) said h) }
    {
        let given = retransmission_of_key(alloc, &self.entries, key, peer)?;
        Ok(Heard::Repeat(given))
    }

    /// Receives a non-2xx final again.
    fn hear_repeated_final(
        &self,
        alloc: Global,
        peer: Peer,
        message: Msg,
        now: u64,
        key: u64,
    ) -> Result<Heard, NoMemory>
        ensures { IfOk result (λ said. (h : List TransactionOp) → HearsAs self.now self.now peer message now (RepeatedFinal key) said h) }
    {
        let given = last_sent_of_key(alloc, &self.entries, key)?;
        Ok(Heard::Repeat(given))
    }

    /// Receives a response to a live client transaction.
    fn hear_answer<L: Ledger>(
        &mut self,
        peer: Peer,
        message: Msg,
        status: u16,
        now: u64,
        key: u64,
        steps: &mut Steps<L>,
    ) -> Heard
        ensures { status ≡ (head_of message).status → (h : List TransactionOp) → HearsAs self.old self.new peer message now (Answer key) result h }
    {
        self.entries.change(
            key,
            Change::Response {
                step: self.step,
                status,
                now,
            },
            steps,
        );
        Heard::Answer(TKey(key), message)
    }

    /// Receives the ACK of a non-2xx final.
    fn hear_acked<L: Ledger>(
        &mut self,
        peer: Peer,
        message: Msg,
        now: u64,
        key: u64,
        steps: &mut Steps<L>,
    ) -> Heard
        ensures { (h : List TransactionOp) → HearsAs self.old self.new peer message now (Acked key) result h }
    {
        self.entries.change(
            key,
            Change::Ack {
                step: self.step,
                now,
            },
            steps,
        );
        Heard::Acked(TKey(key))
    }

    /// Receives any other ACK.
    fn hear_ack<L: Ledger>(
        &mut self,
        peer: Peer,
        message: Msg,
        head: &Head,
        now: u64,
        steps: &mut Steps<L>,
    ) -> Heard
        ensures { head.now ≡ head_of message → (h : List TransactionOp) → HearsAs self.old self.new peer message now AckOf2xx result h }
    {
        self.entries.ack_2xx(self.step, head, steps);
        Heard::AckOf2xx(message)
    }

    /// Receives a response that matches no client transaction.
    fn hear_stray(&self, peer: Peer, message: Msg, now: u64) -> Heard
        ensures { (h : List TransactionOp) → HearsAs self.now self.now peer message now Stray result h }
    {
        Heard::Stray
    }

    /// Receives a message of this class.
    fn hear_as<L: Ledger>(
        &mut self,
        alloc: Global,
        peer: Peer,
        message: Msg,
        head: Head,
        now: u64,
        message_class: MessageClass,
        steps: &mut Steps<L>,
    ) -> Result<Heard, HearFault>
        ensures done { head ≡ head_of message → IfOk result (λ said. (h : List TransactionOp) → HasCapacity h → HearsAs self.old self.new peer message now message_class said h) }
        ensures refused { IfErr result (λ fault. Stays self.old self.new (λ h. IsRefusal message_class message fault)) }
    {
        match message_class {
            MessageClass::Fresh => Ok(self.hear_fresh(alloc, peer, message, head, now, steps)?),
            MessageClass::Full => Err(HearFault::Full(message)),
            MessageClass::Repeat(key) => Ok(self.hear_repeat(alloc, peer, message, now, key)?),
            MessageClass::RepeatedFinal(key) => Ok(self.hear_repeated_final(
                alloc, peer, message, now, key,
            )?),
            MessageClass::Answer(key) => Ok(self.hear_answer(
                peer,
                message,
                head.status,
                now,
                key,
                steps,
            )),
            MessageClass::Acked(key) => Ok(self.hear_acked(peer, message, now, key, steps)),
            MessageClass::AckOf2xx => Ok(self.hear_ack(peer, message, &head, now, steps)),
            MessageClass::Stray => Ok(self.hear_stray(peer, message, now)),
        }
    }
}
