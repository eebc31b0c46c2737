//! The rules of a service.
ghost use Rattle.std.specs.Prelude.{◌≡◌, [], codes, length, nat_lt, ◌&&◌, not, Ok, IfOk};
ghost use Rattle.toml.specs.Data.{as_table};
ghost use Rattle.toml.specs.View.{view, table_view, array_view};
ghost use Rattle.mmtel_sheet_grammar.specs.ReadResults.{IsReadResult, then_read, or_wrong};
ghost use Rattle.mmtel_sheet_grammar.specs.Keys.{dotted_path, rule_key_of, rule_path};
ghost use Rattle.mmtel_sheet_grammar.specs.Rules.{has_key, empty_draft, with_notification, event_read, except_read};
ghost use Rattle.mmtel_sheet_grammar.specs.Rules.{one_read, from_read, until_read, key_read, listed_key, rule_key_read};
ghost use Rattle.mmtel_sheet_grammar.specs.Rules.{day_from_read, day_until_read, days_read, offset_read};
ghost use Rattle.mmtel_sheet_grammar.specs.Rules.{who_of, condition_of, forward_read, allow_read, action_of, keys_of_rule, rule_of, are_tables, items_count, rules_from};
ghost use Rattle.mmtel_sheet_grammar.specs.Rules.{rules_of, rules_at};
ghost use Rattle.mmtel_sheet_grammar.specs.Sound.{IsSound, IsSoundArray, IsSoundTable};

use crate::elements::{clock, days, domain, offset, target, text, time, tokens, truth, uris};
use crate::faults::{many, unknown, wrong};
use crate::keys::{dotted_path, is_listed, rule_key, rule_path};
use mmtel_lex::{List, Text, Uri};
use mmtel_sheet_grammar::SheetFault;
use mmtel_sheet_grammar::drafts::{Hours, Notifications, RuleDraft};
use mmtel_sheet_grammar::keys::{Notification, RuleKey, Schema, Service};
use mmtel_sheet_values::{Action, Condition, EventWord, Forward, Rule, Weekly, Who, Window};
use std::alloc::Global;
use toml::value::Array;
use toml::{Table, Value};

fn empty_draft() -> RuleDraft
    ensures { result ≡ empty_draft }
{
    RuleDraft {
        abroad: false,
        allow: None,
        anonymous: false,
        day_from: None,
        diverted: false,
        event: None,
        except: List::new(),
        from: None,
        hours: None,
        many: None,
        media: None,
        notifications: Notifications {
            notify_caller: true,
            reveal_to_caller: true,
            reveal_served_to_caller: true,
            reveal_to_target: true,
        },
        one: None,
        target: None,
        weekly: None,
        window: None,
    }
}

fn with_notification(
    notification: Notification,
    enabled: bool,
    notifications: Notifications,
) -> Notifications
    ensures { result ≡ with_notification notification enabled notifications }
{
    match notification {
        Notification::NotifyCaller => Notifications {
            notify_caller: enabled,
            ..notifications
        },
        Notification::RevealToCaller => Notifications {
            reveal_to_caller: enabled,
            ..notifications
        },
        Notification::RevealServedToCaller => Notifications {
            reveal_served_to_caller: enabled,
            ..notifications
        },
        Notification::RevealToTarget => Notifications {
            reveal_to_target: enabled,
            ..notifications
        },
    }
}

/// An event key: only one may be true.
fn read_event(
    alloc: Global,
    at: &[u8],
    draft: &mut RuleDraft,
    event: EventWord,
    is_set: bool,
) -> Result<(), SheetFault>
    ensures { IsReadResult (event_read at.now event draft.old is_set) (then_read result (λ _. Ok draft.new)) }
{
    if !is_set {
        return Ok(());
    }
    match draft.event {
        Some(_) => wrong(alloc, at),
        None => {
            draft.event = Some(event);
            Ok(())
        }
    }
}

fn has_key(table: &Table, name: &str) -> bool
    ensures { result ≡ has_key name.now (table_view table.now) }
{
    table.get(name).is_some()
}

/// More than the identities that one rule may name.
fn is_over_limit(count: usize) -> bool
    ensures { result ≡ nat_lt 64 count }
{
    count > 64
}

/// More of them in `except` than allowed, where no `one` comes after it.
fn is_last_and_too_long(count: usize, table: &Table) -> bool
    ensures { result ≡ (nat_lt 64 count && not (has_key (codes "one") (table_view table.now))) }
{
    if !is_over_limit(count) {
        return false;
    }
    !has_key(table, "one")
}

/// The identities that are excepted.
fn read_except(
    alloc: Global,
    at: &[u8],
    draft: &mut RuleDraft,
    table: &Table,
    except: List<Uri>,
) -> Result<(), SheetFault>
    ensures { IsReadResult (except_read at.now draft.old (table_view table.now) except) (then_read result (λ _. Ok draft.new)) }
{
    if !has_key(table, "many") {
        return wrong(alloc, at);
    }
    if is_last_and_too_long(except.items().len(), table) {
        return many(alloc, at);
    }
    draft.except = except;
    Ok(())
}

/// The identities that are meant.
fn read_one(
    alloc: Global,
    at: &[u8],
    draft: &mut RuleDraft,
    one: List<Uri>,
) -> Result<(), SheetFault>
    ensures { IsReadResult (one_read at.now draft.old one) (then_read result (λ _. Ok draft.new)) }
{
    if is_over_limit(one.items().len() + draft.except.items().len()) {
        return many(alloc, at);
    }
    draft.one = Some(one);
    Ok(())
}

/// The start of the window.
fn read_from(
    alloc: Global,
    at: &[u8],
    draft: &mut RuleDraft,
    table: &Table,
    from: i128,
) -> Result<(), SheetFault>
    ensures { IsReadResult (from_read at.now draft.old (table_view table.now) from) (then_read result (λ _. Ok draft.new)) }
{
    if !has_key(table, "until") {
        return wrong(alloc, at);
    }
    draft.from = Some(from);
    Ok(())
}

/// The end of the window.
fn read_until(
    alloc: Global,
    at: &[u8],
    draft: &mut RuleDraft,
    until: i128,
) -> Result<(), SheetFault>
    ensures { IsReadResult (until_read at.now draft.old until draft.old.from) (then_read result (λ _. Ok draft.new)) }
{
    match draft.from {
        Some(from) if from < until => {
            draft.window = Some(Window { from, until });
            Ok(())
        }
        _ => wrong(alloc, at),
    }
}

/// The start of the hours.
fn read_day_from(
    alloc: Global,
    at: &[u8],
    draft: &mut RuleDraft,
    table: &Table,
    from: u16,
) -> Result<(), SheetFault>
    ensures { IsReadResult (day_from_read at.now draft.old (table_view table.now) from) (then_read result (λ _. Ok draft.new)) }
{
    if !has_key(table, "day-until") {
        return wrong(alloc, at);
    }
    if !has_key(table, "days") {
        return wrong(alloc, at);
    }
    draft.day_from = Some(from);
    Ok(())
}

/// The end of the hours.
fn read_day_until(
    alloc: Global,
    at: &[u8],
    draft: &mut RuleDraft,
    until: u16,
) -> Result<(), SheetFault>
    ensures { IsReadResult (day_until_read at.now draft.old until draft.old.day_from) (then_read result (λ _. Ok draft.new)) }
{
    match draft.day_from {
        Some(from) if from < until => {
            draft.hours = Some(Hours { from, until });
            Ok(())
        }
        _ => wrong(alloc, at),
    }
}

/// The days, beside the hours.
fn read_days(
    alloc: Global,
    at: &[u8],
    draft: &mut RuleDraft,
    days: [bool; 7],
) -> Result<(), SheetFault>
    ensures { IsReadResult (days_read at.now draft.old days draft.old.hours) (then_read result (λ _. Ok draft.new)) }
{
    match draft.hours {
        Some(hours) => {
            draft.weekly = Some(Weekly {
                days,
                from: hours.from,
                until: hours.until,
                offset: 0,
            });
            Ok(())
        }
        None => wrong(alloc, at),
    }
}

/// The offset of the clock, beside the days.
fn read_offset(
    alloc: Global,
    at: &[u8],
    draft: &mut RuleDraft,
    offset: i16,
) -> Result<(), SheetFault>
    ensures { IsReadResult (offset_read at.now draft.old offset draft.old.weekly) (then_read result (λ _. Ok draft.new)) }
{
    match draft.weekly {
        Some(weekly) => {
            draft.weekly = Some(Weekly { offset, ..weekly });
            Ok(())
        }
        None => wrong(alloc, at),
    }
}

/// The value at a key.
fn read_key(
    alloc: Global,
    table: &Table,
    at: &[u8],
    draft: &mut RuleDraft,
    key: RuleKey,
    value: &Value,
) -> Result<(), SheetFault>
    ensures exact { IsReadResult (key_read (table_view table.now) at.now draft.old key (view value.now)) (then_read result (λ _. Ok draft.new)) }
    ensures sound { IfOk result (λ _. IsSound (view value.now)) }
{
    match key {
        RuleKey::Allow => {
            draft.allow = Some(truth(alloc, at, value)?);
            Ok(())
        }
        RuleKey::Anonymous => {
            draft.anonymous = truth(alloc, at, value)?;
            Ok(())
        }
        RuleKey::DayFrom => {
            read_day_from(alloc, at, draft, table, clock(alloc, at, value, 1439)?)
        }
        RuleKey::DayUntil => read_day_until(alloc, at, draft, clock(alloc, at, value, 1440)?),
        RuleKey::Days => read_days(alloc, at, draft, days(alloc, at, value)?),
        RuleKey::Diverted => {
            draft.diverted = truth(alloc, at, value)?;
            Ok(())
        }
        RuleKey::Event(event) => read_event(alloc, at, draft, event, truth(alloc, at, value)?),
        RuleKey::Except => read_except(alloc, at, draft, table, uris(alloc, at, value)?),
        RuleKey::From => read_from(alloc, at, draft, table, time(alloc, at, value)?),
        RuleKey::Id => text(alloc, at, value),
        RuleKey::International => {
            draft.abroad = truth(alloc, at, value)?;
            Ok(())
        }
        RuleKey::Many => {
            drop(draft.many.replace(domain(alloc, at, value)?));
            Ok(())
        }
        RuleKey::Media => {
            drop(draft.media.replace(tokens(alloc, at, value)?));
            Ok(())
        }
        RuleKey::Notification(notice) => {
            draft.notifications = with_notification(
                notice,
                truth(alloc, at, value)?,
                draft.notifications,
            );
            Ok(())
        }
        RuleKey::Offset => read_offset(alloc, at, draft, offset(alloc, at, value)?),
        RuleKey::One => read_one(alloc, at, draft, uris(alloc, at, value)?),
        RuleKey::Target => {
            drop(draft.target.replace(target(alloc, at, value)?));
            Ok(())
        }
        RuleKey::Until => read_until(alloc, at, draft, time(alloc, at, value)?),
    }
}

fn listed_key(schema: Schema, name: &str) -> Option<RuleKey>
    ensures { result ≡ listed_key schema (rule_key_of name.now) }
{
    match rule_key(name) {
        Some(key) if is_listed(schema, key) => Some(key),
        _ => None,
    }
}

/// One more key of the table.
fn read_name(
    alloc: Global,
    schema: Schema,
    table: &Table,
    path: &[u8],
    draft: &mut RuleDraft,
    name: &str,
    value: &Value,
) -> Result<(), SheetFault>
    ensures exact { IsReadResult (rule_key_read schema (table_view table.now) (dotted_path path.now name.now) draft.old name.now (view value.now))
        (then_read result (λ _. Ok draft.new)) }
    ensures sound { IfOk result (λ _. IsSound (view value.now)) }
{
    let at = dotted_path(alloc, path, name.as_bytes())?;
    match listed_key(schema, name) {
        Some(key) => read_key(alloc, table, at.bytes(), draft, key, value),
        None => unknown(alloc, at.bytes()),
    }
}

fn keys_of_rule(
    alloc: Global,
    schema: Schema,
    path: &[u8],
    table: &Table,
) -> Result<RuleDraft, SheetFault>
    ensures exact { IsReadResult (keys_of_rule schema path.now (table_view table.now)) result }
    ensures sound { IfOk result (λ _. IsSoundTable (table_view table.now)) }
{
    let mut draft = empty_draft();
    'members: for (key, value) in table.iter() {
        match read_name(alloc, schema, table, path, &mut draft, key.as_str(), value) {
            Ok(()) => {}
            Err(fault) => {
                drop(draft);
                return Err(fault);
            }
        }
    }
    Ok(draft)
}

fn who(one: Option<List<Uri>>, many: Option<Text>, except: List<Uri>) -> Option<Who>
    ensures { result ≡ who_of one many except }
{
    match one {
        Some(one) => Some(Who { one, many, except }),
        None => match many {
            Some(domain) => Some(Who {
                one: List::new(),
                many: Some(domain),
                except,
            }),
            None => None,
        },
    }
}

fn forward(
    alloc: Global,
    path: &[u8],
    target: Option<Uri>,
    notifications: Notifications,
) -> Result<Action, SheetFault>
    ensures { IsReadResult (forward_read path.now target notifications) result }
{
    match target {
        Some(target) => Ok(Action::Forward(Forward {
            target,
            notify_caller: notifications.notify_caller,
            reveal_to_caller: notifications.reveal_to_caller,
            reveal_served_to_caller: notifications.reveal_served_to_caller,
            reveal_to_target: notifications.reveal_to_target,
        })),
        None => {
            let at = dotted_path(alloc, path, b"target")?;
            wrong(alloc, at.bytes())
        }
    }
}

fn allowance(alloc: Global, path: &[u8], allow: Option<bool>) -> Result<Action, SheetFault>
    ensures { IsReadResult (allow_read path.now allow) result }
{
    match allow {
        Some(allow) => Ok(Action::Allow(allow)),
        None => {
            let at = dotted_path(alloc, path, b"allow")?;
            wrong(alloc, at.bytes())
        }
    }
}

/// The action of the rule, which a required key sets.
fn action(
    alloc: Global,
    service: Service,
    path: &[u8],
    target: Option<Uri>,
    notifications: Notifications,
    allow: Option<bool>,
) -> Result<Action, SheetFault>
    ensures { IsReadResult (action_of service path.now target notifications allow) result }
{
    match service {
        Service::Diversion => forward(alloc, path, target, notifications),
        Service::Incoming => allowance(alloc, path, allow),
        Service::Outgoing => allowance(alloc, path, allow),
    }
}

fn rule(alloc: Global, schema: Schema, path: &[u8], table: &Table) -> Result<Rule, SheetFault>
    ensures exact { IsReadResult (rule_of schema path.now (table_view table.now)) result }
    ensures sound { IfOk result (λ _. IsSoundTable (table_view table.now)) }
{
    let draft = keys_of_rule(alloc, schema, path, table)?;
    let action = action(
        alloc,
        schema.service,
        path,
        draft.target,
        draft.notifications,
        draft.allow,
    )?;
    let condition = Condition {
        identity: who(draft.one, draft.many, draft.except),
        anonymous: draft.anonymous,
        window: draft.window,
        media: draft.media,
        event: draft.event,
        diverted: draft.diverted,
        abroad: draft.abroad,
        weekly: draft.weekly,
    };
    Ok(Rule { condition, action })
}

/// The rule with this number.
fn numbered_rule(
    alloc: Global,
    schema: Schema,
    path: &[u8],
    number: usize,
    table: &Table,
) -> Result<Rule, SheetFault>
    ensures exact { IsReadResult (rule_of schema (rule_path path.now number) (table_view table.now)) result }
    ensures sound { IfOk result (λ _. IsSoundTable (table_view table.now)) }
{
    let path = rule_path(alloc, path, number)?;
    rule(alloc, schema, path.bytes(), table)
}

fn are_tables(items: &Array) -> bool
    ensures { result ≡ are_tables (array_view items.now) }
{
    'items: for item in items {
        if !item.is_table() {
            return false;
        }
    }
    true
}

/// The rule of one more item, after those before it.
fn next_rule(
    alloc: Global,
    schema: Schema,
    path: &[u8],
    earlier: &List<Rule>,
    item: &Value,
) -> Result<Rule, SheetFault>
    ensures exact { IsReadResult (then_read (or_wrong path.now (as_table (view item.now))) (λ ms. rule_of schema (rule_path path.now (length earlier.now)) ms)) result }
    ensures sound { IfOk result (λ _. IsSound (view item.now)) }
{
    let Value::Table(table) = item else {
        return wrong(alloc, path);
    };
    numbered_rule(alloc, schema, path, earlier.items().len(), table)
}

fn each_rule(
    alloc: Global,
    schema: Schema,
    path: &[u8],
    items: &Array,
) -> Result<List<Rule>, SheetFault>
    ensures exact { IsReadResult (rules_from schema path.now [] (array_view items.now)) result }
    ensures sound { IfOk result (λ _. IsSoundArray (array_view items.now)) }
{
    let mut rules = List::new();
    'items: for item in items {
        rules.push(alloc, next_rule(alloc, schema, path, &rules, item)?)?;
    }
    Ok(rules)
}

/// More than the rules that a service may have.
fn is_too_long(items: &Array) -> bool
    ensures { result ≡ nat_lt 64 (items_count (array_view items.now)) }
{
    items.len() > 64
}

fn rules_of(
    alloc: Global,
    schema: Schema,
    path: &[u8],
    items: &Array,
) -> Result<List<Rule>, SheetFault>
    ensures exact { IsReadResult (rules_of schema path.now (array_view items.now)) result }
    ensures sound { IfOk result (λ _. IsSoundArray (array_view items.now)) }
{
    if !are_tables(items) {
        return wrong(alloc, path);
    }
    if is_too_long(items) {
        return many(alloc, path);
    }
    each_rule(alloc, schema, path, items)
}

/// The rules of a service: an array of at most 64 tables.
pub fn rules(
    alloc: Global,
    schema: Schema,
    at: &[u8],
    value: &Value,
) -> Result<List<Rule>, SheetFault>
    ensures exact { IsReadResult (rules_at schema at.now (view value.now)) result }
    ensures sound { IfOk result (λ _. IsSound (view value.now)) }
{
    match value {
        Value::Array(items) => rules_of(alloc, schema, at, items),
        _ => wrong(alloc, at),
    }
}
