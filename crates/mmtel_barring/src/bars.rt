//! Barring in the two directions.
ghost use Rattle.std.specs.Prelude.{◌≡◌};
ghost use Rattle.mmtel_rules.specs.Facts.{facts_view};
ghost use Rattle.mmtel_rules.specs.Identities.{has_identity};
ghost use Rattle.mmtel_barring.specs.Barring.{incoming_refusal, is_anonymous_refused, outgoing_bar};

use mmtel_rules::{Facts, Identities2, all_bar};
use mmtel_sheet_values::{BarPart, Sheet};

/// An outgoing call that is barred.
#[derive(Clone, Copy, Debug, PartialEq, Eq)]
pub struct Barred {
    /// The least index of a rule that bars it.
    pub rule: usize,
}

/// Why an incoming call is refused.
#[derive(Clone, Copy, Debug, PartialEq, Eq)]
pub enum Refusal {
    /// Its caller is anonymous (TS 24.611, anonymous communication rejection).
    Anonymous,
    /// It is barred.
    Barred {
        /// The least index of a rule that bars it.
        rule: usize,
    },
}

/// Whether the party has an identity.
fn has_identity(identities: &Identities2) -> bool
    ensures { result ≡ has_identity identities.now }
{
    identities.sip.is_some() || identities.tel.is_some()
}

/// Whether the caller is refused since it is anonymous.
fn is_anonymous_refused(part: &BarPart, call_facts: &Facts) -> bool
    ensures { let facts = call_facts.entry.now in result ≡ is_anonymous_refused (facts_view facts) part.now }
{
    part.reject_anonymous && call_facts.restricted && has_identity(call_facts.caller)
}

/// The rule of the user's barring of outgoing calls that bars this one; None where the user has none, or none bars it. The facts name the target as the identity. It allocates
/// nothing.
pub fn outgoing(sheet: &Sheet, call_facts: &Facts) -> Option<Barred>
    ensures exact { let facts = call_facts.entry.now in result ≡ outgoing_bar (facts_view facts) sheet.now.outgoing }
{
    match &sheet.outgoing {
        None => None,
        Some(part) => match all_bar(part.rules.items(), call_facts) {
            None => None,
            Some(rule) => Some(Barred { rule }),
        },
    }
}

/// Why the user's barring of incoming calls refuses this one; None where the user has none, or it does not. The rejection of anonymous callers comes before the rules; a caller
/// without an identity is not rejected so. It allocates nothing.
pub fn incoming(sheet: &Sheet, call_facts: &Facts) -> Option<Refusal>
    ensures exact { let facts = call_facts.entry.now in result ≡ incoming_refusal (facts_view facts) sheet.now.incoming }
{
    match &sheet.incoming {
        None => None,
        Some(part) => {
            if is_anonymous_refused(part, call_facts) {
                return Some(Refusal::Anonymous);
            }
            match all_bar(part.rules.items(), call_facts) {
                None => None,
                Some(rule) => Some(Refusal::Barred { rule }),
            }
        }
    }
}
