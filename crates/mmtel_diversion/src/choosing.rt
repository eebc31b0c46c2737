//! The diversion that a record requires.
ghost use Rattle.std.specs.Prelude.{◌≡◌};
ghost use Rattle.std.specs.Option.{option_map};
ghost use Rattle.mmtel_rules.specs.Facts.{facts_view};
ghost use Rattle.mmtel_diversion.specs.Diversion.{cause_of, chosen_diversion, deflection_of, diversion_by, diversion_of};

use mmtel_rules::{Facts, When, first};
use mmtel_sheet_values::{Action, EventWord, Forward, Rule, Sheet};

/// A diversion by a rule.
#[derive(Clone, Copy)]
pub struct Diversion<'a> {
    /// The index of the rule among those of the record, counted from 0.
    pub rule: usize,
    /// Where the call goes, and who is notified of what about it.
    pub forward: &'a Forward,
    /// The cause, for the `cause` parameter of the new target (RFC 4458 §2).
    pub cause: u16,
}

/// The cause of a diversion by a rule for this event, or for none (RFC 4458 §2).
fn cause_of(event: Option<EventWord>) -> u16
    ensures { result ≡ cause_of event }
{
    match event {
        None => 302,
        Some(EventWord::Busy) => 486,
        Some(EventWord::NoAnswer) => 408,
        Some(EventWord::NotReachable) => 503,
        Some(EventWord::NotRegistered) => 404,
    }
}

/// The diversion of the rule at this index; None where it forwards nowhere.
fn diversion_by(index: usize, rule: &Rule) -> Option<Diversion<'_>>
    ensures { option_map chosen_diversion result ≡ diversion_by index rule.now }
{
    match &rule.action {
        Action::Forward(forward) => Some(Diversion {
            rule: index,
            forward,
            cause: cause_of(rule.condition.event),
        }),
        Action::Allow(_) => None,
    }
}

/// The diversion that the record requires at this event: that of the first of its rules that holds (TS 24.604 §4.5.2.6 and §4.9.1). None where diversion is not active or no rule
/// holds, and where the first that holds forwards nowhere, which no rule of a record that was read does. It allocates nothing.
pub fn choose<'a>(sheet: &'a Sheet, call_facts: &Facts, when: When) -> Option<Diversion<'a>>
    ensures exact { let facts = call_facts.entry.now in option_map chosen_diversion result ≡ diversion_of (facts_view facts) when sheet.now }
{
    let part = sheet.diversion.as_ref()?;
    let rules = part.rules.items();
    let place = first(rules, call_facts, when)?;
    let rule = rules.get(place)?;
    diversion_by(place, rule)
}

/// The cause of a diversion by the user's own device (communication deflection, TS 24.604 §4.5.2.6): 487 once the device was alerted, else 480 (RFC 4458 §2). None where
/// the record does not allow it. It allocates nothing.
pub fn deflect(sheet: &Sheet, alerted: bool) -> Option<u16>
    ensures exact { result ≡ deflection_of sheet.now alerted }
{
    match &sheet.diversion {
        Some(part) if part.deflection => Some(if alerted { 487 } else { 480 }),
        _ => None,
    }
}
