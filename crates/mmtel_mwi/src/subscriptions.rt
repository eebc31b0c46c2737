//! Subscriptions, and the NOTIFYs that have no final response.
ghost use Rattle.std.specs.Prelude.{◌≡◌, ◌<◌, ◌++◌, IfOk, IfSome, OnErr, OnOk, find, length, position};
ghost use Rattle.std.specs.Option.{option_copied};
ghost use Rattle.mmtel_leg.specs.Dialogues.{receive_result};
ghost use Rattle.mmtel_leg.specs.declared.dialogues.InFlight.TheVariants as in_flight;
ghost use Rattle.mmtel_mwi.specs.Boxes.{ended_leg, has_branch, is_named, is_numbered, number_if, renewed_subscription};
ghost use Rattle.mmtel_mwi.specs.Boxes.{subscribers_in, subscription, subscription_after_notify, subscription_after_request};
ghost use Rattle.mmtel_mwi.specs.Notifies.{notify_request_in, remaining_seconds};

use crate::counts::Counts;
use crate::notifies::{notify_request, remaining_seconds};
use mmtel_base::{List, NoMemory, Text};
use mmtel_leg::{CallerLeg, DialogName, DialogueFault, Ended, InFlight, Standing};
use mmtel_message::{Msg, OwnAddress};
use mmtel_types::{Account, Moment, SubNo};
use std::alloc::Global;

/// A subscription to a mailbox. The value is linear: it must be spent.
pub struct Subscription {
    /// Its number.
    pub number: SubNo,
    /// The account whose mailbox it is to.
    pub account: Account,
    /// The leg of the subscriber.
    pub leg: CallerLeg<Standing>,
    /// Until when it is active.
    pub until: Moment,
    /// The number of the SUBSCRIBE that set that, counted from 1 within the subscription.
    pub set: u64,
}

/// A NOTIFY that has no final response.
#[derive(Drop)]
pub struct PendingNotify {
    /// Its branch after the magic cookie.
    pub branch: Text,
    /// The number of its subscription.
    pub sub: SubNo,
}

/// The place of the subscription of this number.
pub fn place_of(live: &[Subscription], sub: SubNo) -> Option<usize>
    ensures place { result ≡ position (is_numbered sub) live.now }
    ensures within { IfSome result (λ at. at < length live.now) }
{
    live.iter().position(|one| one.number.0 == sub.0)
}

/// The subscription of this number.
pub fn subscription_numbered(live: &[Subscription], sub: SubNo) -> Option<&Subscription>
    ensures { option_copied result ≡ find (is_numbered sub) live.now }
{
    live.iter().find(|one| one.number.0 == sub.0)
}

fn is_named(subscription: &Subscription, name: DialogName<'_>) -> bool
    ensures { result ≡ is_named name.entry.call_id.now name.entry.local.now name.entry.remote.now subscription.now }
{
    name.is_of(subscription.leg.dialogue())
}

/// The subscription whose dialog has this name.
pub fn subscription_with_dialog<'a>(
    live: &'a [Subscription],
    name: DialogName<'_>,
) -> Option<&'a Subscription>
    ensures { option_copied result ≡ find (is_named name.entry.call_id.now name.entry.local.now name.entry.remote.now) live.now }
{
    live.iter().find(|one| is_named(one, name))
}

/// Adds the number of a subscription, where it is to the mailbox of the account.
fn add_number(
    alloc: Global,
    out: &mut List<SubNo>,
    subscription: &Subscription,
    account: Account,
) -> Result<(), NoMemory>
    ensures { OnOk result (out.new ≡ out.old ++ number_if account subscription.now) }
{
    if subscription.account.0 != account.0 {
        return Ok(());
    }
    out.push(alloc, subscription.number)?;
    Ok(())
}

/// The numbers of the subscriptions to the mailbox of the account.
pub fn subscribers_in(
    alloc: Global,
    live: &[Subscription],
    account: Account,
) -> Result<List<SubNo>, NoMemory>
    ensures { IfOk result (λ l. l ≡ subscribers_in account live.now) }
{
    let mut out = List::new();
    for one in live {
        add_number(alloc, &mut out, one, account)?;
    }
    Ok(out)
}

impl PendingNotify {
    fn has_branch(&self, branch: &[u8]) -> bool
        ensures { result ≡ has_branch branch.now self.now }
    {
        self.branch.bytes() == branch
    }
}

/// The place of the NOTIFY with this branch.
pub fn place_pending(pending: &[PendingNotify], branch: &[u8]) -> Option<usize>
    ensures place { result ≡ position (has_branch branch.now) pending.now }
    ensures within { IfSome result (λ at. at < length pending.now) }
{
    pending.iter().position(|one| one.has_branch(branch))
}

/// The NOTIFY with this branch.
pub fn pending_with_branch<'a>(
    pending: &'a [PendingNotify],
    branch: &[u8],
) -> Option<&'a PendingNotify>
    ensures { option_copied result ≡ find (has_branch branch.now) pending.now }
{
    pending.iter().find(|one| one.has_branch(branch))
}

impl Subscription {
    /// The subscription of this number to the mailbox of an account, until a moment that its first SUBSCRIBE set.
    pub fn of(
        number: SubNo,
        account: Account,
        leg: CallerLeg<Standing>,
        until: Moment,
    ) -> Subscription
        ensures { result ≡ subscription number account leg until }
    {
        Subscription {
            number,
            account,
            leg,
            until,
            set: 1,
        }
    }

    /// One more SUBSCRIBE sets until when it is active.
    pub fn renew_until(&mut self, until: Moment)
        ensures { self.new ≡ renewed_subscription until self.old }
    {
        self.until = until;
        self.set = self.set.saturating_add(1);
    }

    /// Accepts a request of its subscriber, or refuses it.
    pub fn receive(&mut self, request: &Msg) -> Result<(), DialogueFault>
        ensures check { result ≡ receive_result self.old.leg.dialogue request.now in_flight.None }
        ensures received { OnOk result (self.new ≡ subscription_after_request request.now self.old) }
        ensures refused { OnErr result (self.new ≡ self.old) }
    {
        self.leg.heard(request, InFlight::None)
    }

    /// The NOTIFY to its subscriber, with these counts of the mailbox.
    pub fn notify(
        &mut self,
        alloc: Global,
        sip: OwnAddress,
        branch: &Text,
        last: bool,
        now: Moment,
        counts: &Counts,
    ) -> Result<Msg, NoMemory>
        ensures message { IfOk result (λ m. m ≡ notify_request_in sip self.old.leg.dialogue branch.now last (remaining_seconds self.old.until now) counts.now) }
        ensures reported { OnOk result (self.new ≡ subscription_after_notify self.old) }
        ensures refused { OnErr result (self.new ≡ self.old) }
    {
        let seconds = remaining_seconds(self.until, now);
        notify_request(alloc, sip, &mut self.leg, branch, last, seconds, counts)
    }

    /// Ends it, and returns what remains of its leg.
    pub fn leave(self) -> Ended
        ensures { result ≡ ended_leg self }
    {
        let Subscription {
            number: _,
            account: _,
            leg,
            until: _,
            set: _,
        } = self;
        leg.leave()
    }
}
