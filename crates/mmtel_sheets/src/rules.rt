//! Rules as tables.
ghost use Rattle.std.specs.Prelude.{◌≡◌, IfOk, List, ℕ, codes, true};
ghost use Rattle.toml.specs.Data.{is_before};
ghost use Rattle.toml.specs.View.{view, table_view};
ghost use Rattle.mmtel_sheet_grammar.specs.Printable.{IsRule, AreRules};
ghost use Rattle.mmtel_sheets.specs.Printing.{comes_before, late_keys, middle_keys, party_keys, rule_data, rules_data, week_keys};

use crate::members::{no_keys, with_key};
use crate::values::{
    abroad_value, allow_value, anonymous_value, day_from_value, day_until_value, days_value,
    diverted_value, event_value, except_value, from_value, many_value, media_value,
    notification_value, offset_value, one_value, target_value, until_value,
};
use mmtel_lex::NoMemory;
use mmtel_sheet_grammar::keys::{Notification, Service};
use mmtel_sheet_values::{EventWord, Rule};
use std::alloc::Global;
use toml::{Table, Value};

/// The keys of a rule from `one` on.
fn late_keys(alloc: Global, service: Service, rule: &Rule) -> Result<Table, NoMemory>
    requires { IsRule service rule.now }
    ensures members { IfOk result (λ t. table_view t ≡ late_keys rule.now) }
    ensures before { IfOk result (λ t. (k : List ℕ) → comes_before k (codes "one") ≡ true → is_before k (table_view t) ≡ true) }
{
    let window = until_value(alloc, rule.condition.window)?;
    let until = with_key(alloc, "until", window, no_keys(alloc))?;
    let goal = target_value(alloc, service, &rule.action)?;
    let target = with_key(alloc, "target", goal, until)?;
    let told = notification_value(Notification::RevealServedToCaller, &rule.action);
    let served = with_key(alloc, "reveal-served-user-identity-to-caller", told, target)?;
    let told = notification_value(Notification::RevealToTarget, &rule.action);
    let to_target = with_key(alloc, "reveal-identity-to-target", told, served)?;
    let told = notification_value(Notification::RevealToCaller, &rule.action);
    let to_caller = with_key(alloc, "reveal-identity-to-caller", told, to_target)?;
    let meant = one_value(alloc, &rule.condition.identity)?;
    let one = with_key(alloc, "one", meant, to_caller)?;
    Ok(one)
}

/// The keys of a rule from `media` on.
fn middle_keys(alloc: Global, service: Service, rule: &Rule) -> Result<Table, NoMemory>
    requires { IsRule service rule.now }
    ensures members { IfOk result (λ t. table_view t ≡ middle_keys service rule.now) }
    ensures before { IfOk result (λ t. (k : List ℕ) → comes_before k (codes "media") ≡ true → is_before k (table_view t) ≡ true) }
{
    let event = rule.condition.event;
    let late = late_keys(alloc, service, rule)?;
    let ahead = offset_value(rule.condition.weekly);
    let offset = with_key(alloc, "offset", ahead, late)?;
    let told = notification_value(Notification::NotifyCaller, &rule.action);
    let notify = with_key(alloc, "notify-caller", told, offset)?;
    let happened = event_value(service, EventWord::NotRegistered, event);
    let not_registered = with_key(alloc, "not-registered", happened, notify)?;
    let happened = event_value(service, EventWord::NotReachable, event);
    let not_reachable = with_key(alloc, "not-reachable", happened, not_registered)?;
    let happened = event_value(service, EventWord::NoAnswer, event);
    let no_answer = with_key(alloc, "no-answer", happened, not_reachable)?;
    let offered = media_value(alloc, &rule.condition.media)?;
    let media = with_key(alloc, "media", offered, no_answer)?;
    Ok(media)
}

/// The keys of a rule from `except` on.
fn party_keys(alloc: Global, service: Service, rule: &Rule) -> Result<Table, NoMemory>
    requires { IsRule service rule.now }
    ensures members { IfOk result (λ t. table_view t ≡ party_keys service rule.now) }
    ensures before { IfOk result (λ t. (k : List ℕ) → comes_before k (codes "except") ≡ true → is_before k (table_view t) ≡ true) }
{
    let middle = middle_keys(alloc, service, rule)?;
    let domain = many_value(alloc, &rule.condition.identity)?;
    let many = with_key(alloc, "many", domain, middle)?;
    let abroad = abroad_value(service, rule.condition.abroad);
    let international = with_key(alloc, "international", abroad, many)?;
    let start = from_value(alloc, rule.condition.window)?;
    let from = with_key(alloc, "from", start, international)?;
    let others = except_value(alloc, &rule.condition.identity)?;
    let except = with_key(alloc, "except", others, from)?;
    Ok(except)
}

/// The keys of a rule from `day-from` on.
fn week_keys(alloc: Global, service: Service, rule: &Rule) -> Result<Table, NoMemory>
    requires { IsRule service rule.now }
    ensures members { IfOk result (λ t. table_view t ≡ week_keys service rule.now) }
    ensures before { IfOk result (λ t. (k : List ℕ) → comes_before k (codes "day-from") ≡ true → is_before k (table_view t) ≡ true) }
{
    let party = party_keys(alloc, service, rule)?;
    let week = days_value(alloc, rule.condition.weekly)?;
    let days = with_key(alloc, "days", week, party)?;
    let end = day_until_value(alloc, rule.condition.weekly)?;
    let day_until = with_key(alloc, "day-until", end, days)?;
    let start = day_from_value(alloc, rule.condition.weekly)?;
    let day_from = with_key(alloc, "day-from", start, day_until)?;
    Ok(day_from)
}

/// The table of a rule.
fn rule_table(alloc: Global, service: Service, rule: &Rule) -> Result<Table, NoMemory>
    requires { IsRule service rule.now }
    ensures { IfOk result (λ t. table_view t ≡ rule_data service rule.now) }
{
    let week = week_keys(alloc, service, rule)?;
    let before = diverted_value(service, rule.condition.diverted);
    let diverted = with_key(alloc, "communication-diverted", before, week)?;
    let happened = event_value(service, EventWord::Busy, rule.condition.event);
    let busy = with_key(alloc, "busy", happened, diverted)?;
    let hidden = anonymous_value(service, rule.condition.anonymous);
    let anonymous = with_key(alloc, "anonymous", hidden, busy)?;
    let through = allow_value(&rule.action);
    let allow = with_key(alloc, "allow", through, anonymous)?;
    Ok(allow)
}

/// The rules of a service, as an array of tables.
pub fn rules_value(alloc: Global, service: Service, rules: &[Rule]) -> Result<Value, NoMemory>
    requires { AreRules service rules.now }
    ensures { IfOk result (λ v. view v ≡ rules_data service rules.now) }
{
    let mut array = Vec::new(alloc);
    'rules: for rule in rules {
        array.push(Value::Table(rule_table(alloc, service, rule)?))?;
    }
    Ok(Value::Array(array))
}
