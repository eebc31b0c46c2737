//! An INVITE that opens a call, with what is read of its parties; and the account of a party that joins a conference.
ghost use Rattle.std.specs.Prelude.{◌≡◌, IfOk};
ghost use Rattle.mmtel_run_definitions.specs.Calls.{arrival_signal, caller_of};
ghost use Rattle.mmtel_trust.specs.ParsedMessage.{caller_account};

use mmtel_b2bua::Signal;
use mmtel_base::NoMemory;
use mmtel_call_parties::Parties;
use mmtel_compose::ReceivedMessage;
use mmtel_rules::Identities2;
use mmtel_transaction::TKey;
use mmtel_trust::{Accounts, Identities, asserted};
use mmtel_types::Account;
use std::alloc::Global;

/// The identities of the caller, where the sender is trusted (RFC 3325 §9.1).
fn caller_of(alloc: Global, invite: &ReceivedMessage) -> Result<Identities2, NoMemory>
    ensures { IfOk result (λ caller. caller ≡ caller_of invite.now.parsed) }
{
    let Identities { sip, tel } = asserted(alloc, &invite.message, invite.trusted)?;
    Ok(Identities2 { sip, tel })
}

/// The signal of an INVITE that opens a call, in this server transaction: the served users, the registration of its target, and the identities of the caller
/// (RFC 5502 §6).
///
/// # Errors
///
/// Out of memory only.
pub fn arrival_signal(
    alloc: Global,
    accounts: &Accounts,
    key: TKey,
    invite: ReceivedMessage,
) -> Result<Signal, NoMemory>
    ensures signal { IfOk result (λ signal. signal ≡ arrival_signal accounts.now key invite) }
{
    let parties = Parties::of(alloc, accounts, &invite.message, invite.trusted)?;
    let identities = caller_of(alloc, &invite)?;
    Ok(Signal::Arrived {
        key,
        invite,
        served: parties.served_accounts(),
        registration: parties.registration,
        identities,
    })
}

/// The account of the sender of an INVITE (RFC 3325 §9.1, RFC 5502 §6).
///
/// # Errors
///
/// Out of memory only.
pub fn caller_account(
    alloc: Global,
    accounts: &Accounts,
    invite: &ReceivedMessage,
) -> Result<Option<Account>, NoMemory>
    ensures account { IfOk result (λ account. account ≡ caller_account accounts.now invite.now.parsed) }
{
    let parties = Parties::of(alloc, accounts, &invite.message, invite.trusted)?;
    Ok(parties.origin)
}
