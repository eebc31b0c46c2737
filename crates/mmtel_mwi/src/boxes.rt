//! Mailboxes, and the subscriptions to them.
ghost use Rattle.std.specs.Prelude.{◌≡◌, IfErr, IfOk, OnErr, OnOk, true, false, find, is_some};
ghost use Rattle.std.specs.Option.{option_map};
ghost use Rattle.mmtel_mwi.specs.Boxes.{counts_in, ended_leg, ended_leg_if, ended_leg_of, has_branch, is_full, is_live, is_numbered, number_with_dialog};
ghost use Rattle.mmtel_mwi.specs.Boxes.{pending_subscription, table_after_end, table_after_end_if, table_after_request, table_after_response};
ghost use Rattle.mmtel_mwi.specs.Boxes.{empty_table, is_full_fault, next_sub, notify_request, peer_of, request_check, set_by, subscribers_of};
ghost use Rattle.mmtel_mwi.specs.Boxes.{subscription_refused_by, table_after_notify, table_after_refresh, with_counts, with_subscription};
ghost use Rattle.mmtel_mwi.specs.Boxes.{with_table, without};

use crate::counts::Counts;
use crate::mailboxes::Mailboxes;
use crate::subscriptions::{
    PendingNotify, Subscription, pending_with_branch, place_of, place_pending, subscribers_in,
    subscription_numbered, subscription_with_dialog,
};
use mmtel_base::{List, NoMemory, Text};
use mmtel_leg::{CallerLeg, DialogName, DialogueFault, Ended, Standing};
use mmtel_message::{Msg, OwnAddress};
use mmtel_types::{Account, Addr, Cause, Moment, Peer, SubNo};
use std::alloc::Global;
use std::marker::Model;

/// The maximum number of active subscriptions.
pub const SUBSCRIPTIONS: usize = 4_096;

/// Why no subscription is made.
#[derive(Clone, Copy, Debug, PartialEq, Eq)]
pub enum SubFault {
    /// The maximum number of subscriptions is active.
    Full,
    /// Memory ran out, for the subscription or for its number.
    NoMemory,
}

/// The counts uploaded for the mailboxes of a server, and the subscriptions to them (RFC 3842 §3). The value is linear: it must be spent.
pub struct Boxes {
    sip: OwnAddress,
    mailboxes: Mailboxes,
    made: u64,
    live: Vec<Subscription>,
    pending: Vec<PendingNotify>,
}

impl Model for Boxes {
    ghost use Rattle.std.specs.Prelude.{ℕ, List, refl};
    ghost use Rattle.std.specs.Coded.{code_by, coded×, coded_ℕ, coded_list};
    ghost use Rattle.mmtel_types.specs.contracts.addrs.Addr as addr;
    ghost use Rattle.mmtel_types.specs.declared.addrs.Addr.{Addr};
    ghost use Rattle.mmtel_mwi.specs.Boxes.{BoxesView, Mailboxes};
    ghost use Rattle.mmtel_mwi.specs.contracts.mailboxes.Mailboxes as boxes;
    ghost use Rattle.mmtel_mwi.specs.contracts.subscriptions.PendingNotify as pending_notify;
    ghost use Rattle.mmtel_mwi.specs.contracts.subscriptions.Subscription as subscription;
    ghost use Rattle.mmtel_mwi.specs.declared.subscriptions.PendingNotify.{PendingNotify};
    ghost use Rattle.mmtel_mwi.specs.declared.subscriptions.Subscription.{Subscription};

    ghost Value = { BoxesView };

    ghost coded = { code_by (Addr × (Mailboxes × (ℕ × (List Subscription × List PendingNotify))))
        (coded× addr.the_row.coded (coded× boxes.the_row.coded (coded× coded_ℕ (coded× (coded_list subscription.the_row.coded) (coded_list pending_notify.the_row.coded)))))
        (λ b. (b.sip, (b.table.mailboxes, (b.table.made, (b.table.live, b.table.pending)))))
        (λ p. record { sip = p.0; table = record { mailboxes = p.1.0; made = p.1.1.0; live = p.1.1.1.0; pending = p.1.1.1.1 } }) (λ _. refl) };

    ghost view = { λ b. record {
      sip = b.sip;
      table = record { mailboxes = b.mailboxes; made = b.made; live = b.live.items; pending = b.pending.items };
    } };
}

/// Removes the subscription of this number, and ends it.
fn remove_subscription(live: &mut Vec<Subscription>, sub: SubNo) -> Option<Ended>
    ensures rest { live.new.items ≡ without (is_numbered sub) live.old.items }
    ensures leg { result ≡ option_map ended_leg (find (is_numbered sub) live.old.items) }
{
    match place_of(live.as_slice(), sub) {
        None => None,
        Some(place) => Some(live.remove(place).leave()),
    }
}

/// Removes the NOTIFY with this branch from those that wait for a final response.
fn remove_pending(pending: &mut Vec<PendingNotify>, branch: &[u8])
    ensures { pending.new.items ≡ without (has_branch branch.now) pending.old.items }
{
    match place_pending(pending.as_slice(), branch) {
        None => {}
        Some(place) => drop(pending.remove(place)),
    }
}

/// The moment 0, for a CDR that is discarded.
fn beginning() -> Moment {
    match Moment::new(0) {
        Some(moment) => moment,
        None => unreachable!(),
    }
}

/// Spends what remains of the leg of a subscription, for which nobody is charged: a meter, if one ran, is closed and its CDR discarded. It allocates nothing.
pub fn drop_ended(ended: Ended) {
    let Ended { meter } = ended;
    match meter {
        None => {}
        Some(meter) => drop(meter.close(beginning(), 0, Cause::Ended)),
    }
}

impl Boxes {
    /// Nothing was uploaded for any mailbox, and nobody has subscribed, at a server with this address. It allocates nothing.
    pub fn new(alloc: Global, sip: Addr) -> Boxes
        ensures nothing { result ≡ record { sip = sip; table = empty_table } }
    {
        Boxes {
            sip: OwnAddress::of(sip),
            mailboxes: Mailboxes::new(alloc),
            made: 0,
            live: Vec::new(alloc),
            pending: Vec::new(alloc),
        }
    }

    /// Sets how many messages wait in the mailbox of the account.
    ///
    /// # Errors
    ///
    /// Out of memory only; nothing has changed then.
    pub fn put(&mut self, account: Account, counts: Counts) -> Result<(), NoMemory>
        ensures put { OnOk result (self.new ≡ with_table self.old (with_counts account counts self.old.table)) }
        ensures refused { OnErr result (self.new ≡ self.old) }
    {
        self.mailboxes.put(account, counts)
    }

    /// How many messages wait in the mailbox of the account; none where nothing was uploaded for it. It allocates nothing.
    pub fn counts(&self, account: Account) -> Counts
        ensures counts { result ≡ counts_in account self.now.table }
    {
        self.mailboxes.counts(account)
    }

    /// Whether the maximum number of subscriptions is active. It allocates nothing.
    pub fn is_full(&self) -> bool
        ensures full { result ≡ is_full self.now.table }
    {
        self.live.len() >= SUBSCRIPTIONS
    }

    /// Makes a subscription to the mailbox of an account, which is active until a moment (RFC 6665 §4.2.1). It has the next number, which is returned.
    ///
    /// # Errors
    ///
    /// The first that applies; the leg is handed back, and nothing has changed. `Full` exactly where 4,096 subscriptions are active. `NoMemory` where memory ran out, or where
    /// all numbers are used: 2^64 - 1 subscriptions are made in all.
    pub fn subscribe(
        &mut self,
        account: Account,
        leg: CallerLeg<Standing>,
        until: Moment,
    ) -> Result<SubNo, (CallerLeg<Standing>, SubFault)>
        ensures number { IfOk result (λ sub. sub ≡ next_sub self.old.table) }
        ensures subscribed { OnOk result (self.new ≡ with_table self.old (with_subscription account leg until self.old.table)) }
        ensures capacity { OnOk result (is_full self.old.table ≡ false) }
        ensures full { IfErr result (λ refused. is_full_fault refused.1 ≡ is_full self.old.table) }
        ensures refused { OnErr result (self.new ≡ self.old) }
        ensures handed_back { IfErr result (λ refused. refused.0 ≡ leg) }
    {
        if self.live.len() >= SUBSCRIPTIONS {
            return Err((leg, SubFault::Full));
        }
        let Some(number) = self.made.checked_add(1) else {
            return Err((leg, SubFault::NoMemory));
        };
        if self.live.reserve(1).is_err() {
            return Err((leg, SubFault::NoMemory));
        }
        let sub = SubNo(number);
        self.live
            .push_reserved(Subscription::of(sub, account, leg, until));
        self.made = number;
        Ok(sub)
    }

    /// The active subscription whose dialog has this Call-ID, this tag of the server and this tag of the other side (RFC 3261 §12); None exactly where there is none. It
    /// allocates nothing.
    pub fn find(&self, call_id: &[u8], local: &[u8], remote: &[u8]) -> Option<SubNo>
        ensures found { result ≡ number_with_dialog call_id.now local.now remote.now self.now.table }
    {
        let name = DialogName {
            call_id,
            local,
            remote,
        };
        match subscription_with_dialog(&self.live, name) {
            None => None,
            Some(one) => Some(one.number),
        }
    }

    /// The peer of the subscriber; None exactly where the subscription is not active. It allocates nothing.
    pub fn peer(&self, sub: SubNo) -> Option<Peer>
        ensures peer { result ≡ peer_of sub self.now.table }
    {
        match subscription_numbered(&self.live, sub) {
            None => None,
            Some(one) => Some(one.leg.peer()),
        }
    }

    /// The number of the SUBSCRIBE that set until when the subscription is active, counted from 1 within the subscription; None exactly where it is not active. A timer that an
    /// earlier SUBSCRIBE set has no effect any more. It allocates nothing.
    pub fn set_by(&self, sub: SubNo) -> Option<u64>
        ensures set_by { result ≡ set_by sub self.now.table }
    {
        match subscription_numbered(&self.live, sub) {
            None => None,
            Some(one) => Some(one.set),
        }
    }

    /// Accepts a request of the subscriber in its dialog, or refuses it. It allocates nothing.
    ///
    /// # Errors
    ///
    /// `OldCSeq` where its CSeq number is lower than that of the last request that was accepted (RFC 3261 §12.2.2); nothing has changed then.
    pub fn heard(&mut self, sub: SubNo, request: &Msg) -> Result<(), DialogueFault>
        requires { is_live sub self.old.table ≡ true }
        ensures check { result ≡ request_check sub request.now self.old.table }
        ensures received { OnOk result (self.new ≡ with_table self.old (table_after_request sub request.now self.old.table)) }
        ensures refused { OnErr result (self.new ≡ self.old) }
    {
        match place_of(&self.live, sub) {
            None => unreachable!(),
            Some(place) => self.live[place].receive(request),
        }
    }

    /// Sets a new moment until which a subscription is active; false exactly where it is not active. It allocates nothing.
    pub fn refresh(&mut self, sub: SubNo, until: Moment) -> bool
        ensures live { result ≡ is_live sub self.old.table }
        ensures refreshed { self.new ≡ with_table self.old (table_after_refresh sub until self.old.table) }
    {
        match place_of(&self.live, sub) {
            None => false,
            Some(place) => {
                self.live[place].renew_until(until);
                true
            }
        }
    }

    /// The active subscriptions to the mailbox of the account, in the order in which they were made.
    ///
    /// # Errors
    ///
    /// Out of memory only.
    pub fn subscribers(&self, alloc: Global, account: Account) -> Result<List<SubNo>, NoMemory>
        ensures subscribers { IfOk result (λ l. l ≡ subscribers_of account self.now.table) }
    {
        subscribers_in(alloc, &self.live, account)
    }

    /// The NOTIFY that reports to the subscriber how many messages wait, with this branch after the magic cookie (RFC 6665 §4.2.2); None exactly where the subscription is not
    /// active. It gives the whole seconds that remain of the subscription, or, where it is the last, that the subscription has timed out. Its response is waited for.
    ///
    /// # Errors
    ///
    /// Out of memory only; nothing has changed then.
    pub fn tell(
        &mut self,
        alloc: Global,
        sub: SubNo,
        last: bool,
        branch: &Text,
        now: Moment,
    ) -> Result<Option<Msg>, NoMemory>
        ensures notice { IfOk result (λ m. m ≡ notify_request self.old.sip sub last branch.now now self.old.table) }
        ensures reported { OnOk result (self.new ≡ with_table self.old (table_after_notify sub branch.now self.old.table)) }
        ensures refused { OnErr result (self.new ≡ self.old) }
    {
        let Some(place) = place_of(&self.live, sub) else {
            return Ok(None);
        };
        let counts = self.mailboxes.counts(self.live[place].account);
        self.pending.reserve(1)?;
        let kept = branch.copied(alloc)?;
        match self.live[place].notify(alloc, self.sip, branch, last, now, &counts) {
            Ok(message) => {
                self.pending.push_reserved(PendingNotify {
                    branch: kept,
                    sub: sub,
                });
                Ok(Some(message))
            }
            Err(error) => {
                drop(kept);
                Err(error)
            }
        }
    }

    /// Ends a subscription and returns what remains of its leg; None exactly where it is not active. It allocates nothing.
    pub fn end(&mut self, sub: SubNo) -> Option<Ended>
        ensures leg { result ≡ ended_leg_of sub self.old.table }
        ensures ended { self.new ≡ with_table self.old (table_after_end sub self.old.table) }
    {
        remove_subscription(&mut self.live, sub)
    }

    /// Whether a NOTIFY with this branch after the magic cookie has no final response yet. It allocates nothing.
    pub fn is_pending(&self, branch: &[u8]) -> bool
        ensures waits { result ≡ is_some (pending_subscription branch.now self.now.table) }
    {
        pending_with_branch(&self.pending, branch).is_some()
    }

    /// Ends the subscription whose NOTIFY with this branch is refused, if this status refuses it.
    fn refuse(&mut self, branch: &[u8], code: u16) -> Option<Ended>
        ensures leg { result ≡ ended_leg_if (subscription_refused_by branch.now code self.old.table) self.old.table }
        ensures ended { self.new ≡ with_table self.old (table_after_end_if (subscription_refused_by branch.now code self.old.table) self.old.table) }
    {
        if code < 300 {
            return None;
        }
        match pending_with_branch(&self.pending, branch) {
            None => None,
            Some(one) => {
                let sub = one.sub;
                self.end(sub)
            }
        }
    }

    /// The NOTIFY with this branch got a response with this status, 408 where it timed out. A final response is the last, and one from 300 ends the subscription (RFC 6665
    /// §4.2.2). It allocates nothing.
    pub fn answered(&mut self, branch: &[u8], code: u16) -> Option<Ended>
        ensures leg { result ≡ ended_leg_if (subscription_refused_by branch.now code self.old.table) self.old.table }
        ensures answered { self.new ≡ with_table self.old (table_after_response branch.now code self.old.table) }
    {
        if code < 200 {
            return None;
        }
        let ended = self.refuse(branch, code);
        remove_pending(&mut self.pending, branch);
        ended
    }

    /// Spends all subscriptions. It allocates nothing.
    pub fn give_up(self) {
        let Boxes {
            sip: _,
            mailboxes,
            made: _,
            live,
            pending,
        } = self;
        drop(mailboxes);
        drop(pending);
        let mut live = live;
        'subscriptions: while let Some(subscription) = live.pop() {
            drop_ended(subscription.leave());
        }
        live.destroy_empty();
    }
}
