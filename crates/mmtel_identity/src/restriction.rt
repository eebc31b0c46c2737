//! Whether an identity is restricted, and whether it is presented.
ghost use Rattle.std.specs.Prelude.{◌≡◌};
ghost use Rattle.std.specs.Option.{option_copied};
ghost use Rattle.mmtel_identity.specs.Restriction.{asks_for_privacy, is_restricted, is_caller_restricted, is_callee_restricted, is_presented};

use mmtel_sheet_values::{Restriction, Sheet};
use mmtel_types::{PrivacySet, Side};

/// Whether the words of Privacy request that the identity is withheld from parties that are not trusted.
fn asks_for_privacy(privacy: &PrivacySet) -> bool
    ensures { result ≡ asks_for_privacy privacy.now }
{
    privacy.id || privacy.user || privacy.header
}

/// Whether the words of Privacy, or else the restriction service, restrict the identity.
fn is_restricted(privacy: &PrivacySet, service: &Restriction) -> bool
    ensures { result ≡ is_restricted privacy.now service.now }
{
    if asks_for_privacy(privacy) {
        return true;
    }
    if !service.active {
        return false;
    }
    service.permanent || (service.by_default && !privacy.none)
}

/// Whether the identity of the caller is restricted in its call (TS 24.607 §4.5.2): by the words of its Privacy header field, or by the restriction service of the account
/// that calls; None where no account of this server is served as the caller.
pub fn caller_restricted(privacy: &PrivacySet, sheet: Option<&Sheet>) -> bool
    ensures exact { result ≡ is_caller_restricted privacy.now (option_copied sheet.entry) }
{
    match sheet {
        None => asks_for_privacy(privacy),
        Some(sheet) => is_restricted(privacy, &sheet.oir),
    }
}

/// Whether the identity of the called party is restricted in a message of its own (TS 24.608 §4.5.2): by the words of that message's Privacy header field, or by the
/// restriction service of the account that is called; None where no account of this server is served as the called party.
pub fn callee_restricted(privacy: &PrivacySet, sheet: Option<&Sheet>) -> bool
    ensures exact { result ≡ is_callee_restricted privacy.now (option_copied sheet.entry) }
{
    match sheet {
        None => asks_for_privacy(privacy),
        Some(sheet) => is_restricted(privacy, &sheet.tir),
    }
}

/// Whether the identity of the other side is presented to the party on this side, whose sheet is given: to the called party by the presentation of the originating identity (TS
/// 24.607 §4.5.2), to the caller by that of the terminating identity (TS 24.608 §4.5.2). Without a sheet it is presented.
pub fn present_to(sheet: Option<&Sheet>, side: Side) -> bool
    ensures exact { result ≡ is_presented (option_copied sheet.entry) side }
{
    let Some(sheet) = sheet else {
        return true;
    };
    match side {
        Side::Callee => sheet.oip,
        Side::Caller => sheet.tip,
    }
}
