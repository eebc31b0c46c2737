//! What is done with a REGISTER, by which the core reports a registration (RFC 3261 §10.3; 3GPP TS 24.229 §5.4.1.7, §5.7.1.1).
ghost use Rattle.std.specs.Prelude.{◌≡◌, IfOk};
ghost use Rattle.std.specs.Option.{option_copied};
ghost use Rattle.mmtel_trust.specs.MaskedMessages.{public_part};
ghost use Rattle.mmtel_run_definitions.specs.Refusals.{account_in, registration_disposition, registration_disposition_of, seconds_of, to_account};
ghost use Rattle.mmtel_admission.specs.Accounts.{account_by};
ghost use Rattle.mmtel_admission.specs.Dispositions.{disposition_in};

use crate::status_responses::{Disposition, plain_response};
use mmtel_base::{NoMemory, number_up_to};
use mmtel_compose::ReceivedMessage;
use mmtel_directory::Directory;
use mmtel_message::is_request;
use mmtel_trust::{Accounts, uri_in};
use mmtel_types::Account;
use std::alloc::Global;

/// The seconds of a registration whose request gives none.
const HOUR: u64 = 3600;

/// The greatest number of seconds that Expires can name (RFC 3261 §20.19).
const MOST_SECONDS: u64 = 4_294_967_295;

/// The account that a name-addr names.
fn account_in(alloc: Global, accounts: &Accounts, value: &[u8]) -> Result<Option<Account>, NoMemory>
    ensures { IfOk result (λ account. account ≡ account_in accounts.now value.now) }
{
    match uri_in(alloc, value)? {
        None => Ok(None),
        Some(uri) => {
            let account = accounts.find(&uri);
            drop(uri);
            Ok(account)
        }
    }
}

/// The account that a To value names, where there is one.
fn account_by(
    alloc: Global,
    accounts: &Accounts,
    to: Option<&[u8]>,
) -> Result<Option<Account>, NoMemory>
    ensures { IfOk result (λ account. account ≡ account_by accounts.now (option_copied to.entry)) }
{
    match to {
        None => Ok(None),
        Some(to) => account_in(alloc, accounts, to),
    }
}

/// The account that To of a request names.
fn to_account(
    alloc: Global,
    accounts: &Accounts,
    request: &ReceivedMessage,
) -> Result<Option<Account>, NoMemory>
    ensures { IfOk result (λ account. account ≡ to_account accounts.now (public_part request.now.parsed)) }
{
    if is_request(request.message.start()) {
        account_by(alloc, accounts, request.message.first(b"To"))
    } else {
        Ok(None)
    }
}

/// The number of seconds that Expires of a request gives (RFC 3261 §20.19); None without one, and where it is no number.
pub fn expires(request: &ReceivedMessage) -> Option<u64>
    ensures { result ≡ request.now.parsed.expires }
{
    match request.message.first(b"Expires") {
        None => None,
        Some(value) => number_up_to(MOST_SECONDS, value),
    }
}

/// For how many seconds a request registers: an hour without Expires, or where that is no number (RFC 3261 §10.2.1.1).
fn seconds(request: &ReceivedMessage) -> u64
    ensures { result ≡ seconds_of request.now.parsed.expires }
{
    match expires(request) {
        None => HOUR,
        Some(seconds) => seconds,
    }
}

/// What is done with a REGISTER of a trusted peer for this account, if there is one.
fn registration_disposition_of(account: Option<Account>, request: &ReceivedMessage) -> Disposition
    ensures { disposition_in result ≡ registration_disposition_of account (public_part request.now.parsed) }
{
    match account {
        None => Disposition::Respond(plain_response(404)),
        Some(account) => Disposition::Register {
            account,
            seconds: seconds(request),
        },
    }
}

/// What is done with a REGISTER that no earlier rule refuses: a trusted peer registers the account that To names.
pub fn registration_disposition(
    alloc: Global,
    directory: &Directory,
    request: &ReceivedMessage,
) -> Result<Disposition, NoMemory>
    ensures { IfOk result (λ c. disposition_in c ≡ registration_disposition directory.now.names.accounts (public_part request.now.parsed)) }
{
    if !request.trusted {
        return Ok(Disposition::Respond(plain_response(403)));
    }
    let account = to_account(alloc, &directory.names.accounts, request)?;
    Ok(registration_disposition_of(account, request))
}
