//! How an attempt ends: its times, and the final response that is relayed.
ghost use Rattle.std.specs.Prelude.{◌≡◌, ◌≤◌, IfSome};
ghost use Rattle.std.specs.Option.{option_copied};
ghost use Rattle.mmtel_sheet_values.specs.NoReply.{no_reply_time};
ghost use Rattle.mmtel_call_services.specs.Decisions.{is_status, no_reply_time_of, relayed_status, service_sheet};

use crate::copied_headers::service_sheet;
use crate::openings::Service;
use mmtel_sheet_values::Sheet;
use mmtel_types::Cause;

/// The no-reply time of a record.
fn no_reply_time_in(sheet: &Sheet) -> Option<u64>
    ensures exact { result ≡ no_reply_time sheet.now }
    ensures bound { IfSome result (λ time. time ≤ 65535000) }
{
    match &sheet.diversion {
        None => None,
        Some(part) => {
            let seconds = part.no_reply;
            match sheet.no_reply_time() {
                None => None,
                Some(_) => Some(u64::from(seconds) * 1000),
            }
        }
    }
}

/// The no-reply time of the record of the served account, in milliseconds (TS 24.604 §4.5.2.6); None if the record has none.
pub fn no_reply_time_of(service: Option<&Service>) -> Option<u64>
    ensures exact { result ≡ no_reply_time_of (service_sheet (option_copied service.entry)) }
    ensures bound { IfSome result (λ time. time ≤ 65535000) }
{
    match service_sheet(service) {
        None => None,
        Some(sheet) => no_reply_time_in(sheet),
    }
}

/// The status of a target's final response that a cause relays.
fn relayed_status(cause: Cause) -> Option<u16>
    ensures { result ≡ relayed_status cause }
{
    match cause {
        Cause::Relayed(code) => Some(code),
        Cause::Unreachable(code) => Some(code),
        Cause::OutgoingBarred => None,
        Cause::IncomingBarred => None,
        Cause::AnonymousRejected => None,
        Cause::NotRegistered => None,
        Cause::NetworkBusy => None,
        Cause::NoReply => None,
        Cause::TooManyDiversions { busy: _ } => None,
        Cause::Cancelled => None,
        Cause::NoAccount => None,
        Cause::NoRoute => None,
        Cause::BadScheme => None,
        Cause::Hops => None,
        Cause::Extension => None,
        Cause::Critical => None,
        Cause::Merged => None,
        Cause::Full => None,
        Cause::Ended => None,
        Cause::Unacknowledged => None,
    }
}

/// Whether a target's final response of this status is relayed to the caller, where the call is refused with this cause.
pub fn is_relayed_final(cause: Cause, code: u16) -> bool
    ensures exact { result ≡ is_status code (relayed_status cause) }
{
    match relayed_status(cause) {
        None => false,
        Some(other) => other == code,
    }
}
