//! Which rule of a list decides.
ghost use Rattle.std.specs.Prelude.{◌≡◌};
ghost use Rattle.mmtel_rules.specs.Facts.{facts_view};
ghost use Rattle.mmtel_rules.specs.Rules.{allows, barred_by, first_that_holds, is_let_through, lets_through};

use crate::conditions::holds;
use crate::values::{Facts, When};
use mmtel_sheet_values::{Action, Rule};

/// The least index of a rule that holds; None exactly where none does. It allocates nothing.
pub fn first(rules: &[Rule], call_facts: &Facts, when: When) -> Option<usize>
    ensures exact { let facts = call_facts.entry.now in result ≡ first_that_holds (facts_view facts) when rules.now }
{
    rules
        .iter()
        .position(|rule| holds(&rule.condition, call_facts, when))
}

/// Whether the rule allows calls.
fn allows(rule: &Rule) -> bool
    ensures { result ≡ allows rule.now.action }
{
    match rule.action {
        Action::Allow(allowed) => allowed,
        Action::Forward(_) => false,
    }
}

/// Whether the rule holds as the call arrives at a registered user, and allows it.
fn lets_through(rule: &Rule, call_facts: &Facts) -> bool
    ensures { let facts = call_facts.entry.now in result ≡ lets_through (facts_view facts) rule.now }
{
    allows(rule)
        && holds(
            &rule.condition,
            call_facts,
            When::Arrival { registered: true },
        )
}

/// Whether one of the rules allows the call.
fn is_let_through(rules: &[Rule], call_facts: &Facts) -> bool
    ensures { let facts = call_facts.entry.now in result ≡ is_let_through (facts_view facts) rules.now }
{
    rules.iter().any(|rule| lets_through(rule, call_facts))
}

/// The least index of a rule that holds as the call arrives at a registered user, where no rule that holds then allows the call; None exactly where none holds or one of
/// them allows it (TS 24.611 §4.9.1 and RFC 4745 §10). It allocates nothing.
pub fn all_bar(rules: &[Rule], call_facts: &Facts) -> Option<usize>
    ensures exact { let facts = call_facts.entry.now in result ≡ barred_by (facts_view facts) rules.now }
{
    if is_let_through(rules, call_facts) {
        return None;
    }
    first(rules, call_facts, When::Arrival { registered: true })
}
