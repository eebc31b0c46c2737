//! Why a call is refused at its opening.
ghost use Rattle.std.specs.Prelude.{◌≡◌, false};
ghost use Rattle.std.specs.Option.{option_copied, option_map_or};
ghost use Rattle.mmtel_rules.specs.Facts.{facts_view};
ghost use Rattle.mmtel_precedence.specs.Opening.{refusal_on_opening, requires_privacy};
ghost use Rattle.mmtel_precedence.specs.Services.{bars_outgoing};

use crate::decisions::bars_outgoing;
use mmtel_rules::Facts;
use mmtel_served_user::Served;
use mmtel_sheet_values::Sheet;
use mmtel_types::{Cause, PrivacySet};

/// Whether session privacy is requested, and the call is to fail where it cannot be provided (RFC 3323 §4.2).
fn requires_privacy(privacy: &PrivacySet) -> bool
    ensures { result ≡ requires_privacy privacy.now }
{
    privacy.session && privacy.critical
}

/// Whether the account that calls, where one is served, bars its own calls to the party that the facts name.
fn bars_target(sheet: Option<&Sheet>, call_facts: &Facts) -> bool
    ensures { let facts = call_facts.entry.now in result ≡ option_map_or (bars_outgoing (facts_view facts)) (option_copied sheet.entry) false }
{
    match sheet {
        None => false,
        Some(sheet) => bars_outgoing(sheet, call_facts),
    }
}

/// Why a call is refused at its opening; None where it goes to its first target.
///
/// In this order: it requests critical privacy of its session, which the server cannot provide (RFC 3323 §4.2); it is served for a user of no account (RFC 5502 §4);
/// the account that is served as the caller bars its own call (TS 24.611 §4.5.2).
/// The sheet is the record of that account, None where no caller is served; the facts name the first target as the other party. It allocates nothing.
pub fn refusal_on_opening(
    privacy: &PrivacySet,
    served: &Served,
    sheet: Option<&Sheet>,
    call_facts: &Facts,
) -> Option<Cause>
    ensures exact { let facts = call_facts.entry.now in result ≡ refusal_on_opening privacy.now served.now (option_copied sheet.entry) (facts_view facts) }
{
    if requires_privacy(privacy) {
        return Some(Cause::Critical);
    }
    if served.is_of_no_account() {
        return Some(Cause::NoAccount);
    }
    if bars_target(sheet, call_facts) {
        return Some(Cause::OutgoingBarred);
    }
    None
}
