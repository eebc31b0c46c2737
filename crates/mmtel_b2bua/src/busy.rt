//! Which accounts the calls keep busy.
ghost use Rattle.std.specs.Prelude.{◌≡◌, ◌+◌, ◌-◌, ℕ, IfOk, OnErr, OnOk, Ok, if◌then◌else◌};
ghost use Rattle.std.specs.Option.{option_copied, option_map};
ghost use Rattle.mmtel_call_services.specs.Busy.{calls_of};
ghost use Rattle.mmtel_call.specs.Closing.{account_in};
ghost use Rattle.mmtel_b2bua.specs.Entries.{origin_of, served_of};
ghost use Rattle.mmtel_b2bua.specs.Invariant.{account_count, busy_count, is_gone};

use crate::entries::Entry;
use mmtel_base::NoMemory;
use mmtel_call::Phase;
use mmtel_call_services::{BusyCounts, Service};
use mmtel_types::Account;

/// The served account, if there is one.
pub fn account_of(service: Option<&Service>) -> Option<Account>
    ensures { result ≡ option_map account_in (option_copied service.entry) }
{
    match service {
        None => None,
        Some(service) => Some(service.account),
    }
}

/// Adds one call that keeps this account busy, if there is one.
pub fn add_account(busy: &mut BusyCounts, account: Option<Account>) -> Result<(), NoMemory>
    ensures more { OnOk result ((number : ℕ) → calls_of busy.new number
        ≡ calls_of busy.old number + account_count account number) }
    ensures same { OnErr result (busy.new ≡ busy.old) }
{
    match account {
        None => Ok(()),
        Some(account) => busy.add_call(account),
    }
}

/// Removes one call that keeps it busy, if there is one.
pub fn remove_account(busy: &mut BusyCounts, account: Option<Account>)
    ensures { (number : ℕ) → calls_of busy.new number ≡ calls_of busy.old number - account_count account number }
{
    match account {
        None => {}
        Some(account) => busy.remove_call(account),
    }
}

/// Whether a call leaves after its step.
pub fn is_gone(step_result: &Result<bool, NoMemory>) -> bool
    ensures { result ≡ is_gone step_result.now }
{
    match step_result {
        Ok(settled) => *settled,
        Err(_) => true,
    }
}

/// Counts the accounts again that a call keeps busy which stays after its step. If memory runs out for that, the call does not stay.
pub fn count_again(
    busy: &mut BusyCounts,
    entry: &Entry,
    step_result: Result<bool, NoMemory>,
) -> Result<bool, NoMemory>
    ensures counted { (number : ℕ) → calls_of busy.new number
        ≡ calls_of busy.old number + (if is_gone result then 0 else busy_count number entry.now) }
    ensures received { IfOk result (λ settled. step_result ≡ Ok settled) }
{
    if is_gone(&step_result) {
        return step_result;
    }
    match entry.add_to(busy) {
        Ok(()) => step_result,
        Err(error) => Err(error),
    }
}

impl Entry {
    /// The account that is served as the caller of a call that is not over.
    #[tactic(auto, unfolding(crate::specs::Entries::origin_of))]
    pub fn origin(&self) -> Option<Account>
        ensures { result ≡ origin_of self.now }
    {
        match &self.call.phase {
            Phase::Offered(_) => self.call.opening.served.origin,
            Phase::Established(_, _) => self.call.opening.served.origin,
            Phase::Detached(_) => self.call.opening.served.origin,
            Phase::Over(_) => None,
        }
    }

    /// The account that is served at its current attempt.
    #[tactic(auto, unfolding(crate::specs::Entries::served_of))]
    pub fn served(&self) -> Option<Account>
        ensures { result ≡ served_of self.now }
    {
        match &self.call.phase {
            Phase::Offered(x) => account_of(x.attempt.service.as_ref()),
            Phase::Established(x, _) => account_of(x.service.as_ref()),
            Phase::Detached(detached) => account_of(detached.service.as_ref()),
            Phase::Over(_) => None,
        }
    }

    /// Adds the call to the counts of its accounts.
    pub fn add_to(&self, busy: &mut BusyCounts) -> Result<(), NoMemory>
        ensures more { OnOk result ((number : ℕ) → calls_of busy.new number
            ≡ calls_of busy.old number + busy_count number self.now) }
        ensures same { OnErr result ((number : ℕ) → calls_of busy.new number ≡ calls_of busy.old number) }
    {
        let origin = self.origin();
        add_account(busy, origin)?;
        match add_account(busy, self.served()) {
            Ok(()) => Ok(()),
            Err(error) => {
                remove_account(busy, origin);
                Err(error)
            }
        }
    }

    /// Removes it from these counts.
    pub fn remove_from(&self, busy: &mut BusyCounts)
        ensures { (number : ℕ) → calls_of busy.new number ≡ calls_of busy.old number - busy_count number self.now }
    {
        remove_account(busy, self.origin());
        remove_account(busy, self.served());
    }
}
