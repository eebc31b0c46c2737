//! The keys of records, by their names.
ghost use Rattle.std.specs.Prelude.{◌≡◌, IfOk, ◌++◌, codes, decimal};
ghost use Rattle.mmtel_sheet_grammar.specs.Keys.{event_of, notification_of, identity_key_of, second_key_of, other_key_of, key_or, notification_or, rule_key_of, is_version_two};
ghost use Rattle.mmtel_sheet_grammar.specs.Keys.{applies_to_callers, is_outgoing, is_listed, dotted_path, rule_path};

use mmtel_lex::{NoMemory, Text};
use mmtel_sheet_grammar::keys::{Notification, RuleKey, Schema, Service, Version};
use mmtel_sheet_values::EventWord;
use std::alloc::Global;

#[tactic(auto, unfolding(mmtel_sheet_grammar::specs::Keys::event_of))]
fn event(name: &str) -> Option<EventWord>
    ensures { result ≡ event_of name.now }
{
    match name {
        "busy" => Some(EventWord::Busy),
        "no-answer" => Some(EventWord::NoAnswer),
        "not-reachable" => Some(EventWord::NotReachable),
        "not-registered" => Some(EventWord::NotRegistered),
        _ => None,
    }
}

#[tactic(auto, unfolding(mmtel_sheet_grammar::specs::Keys::notification_of))]
fn notification_key(name: &str) -> Option<Notification>
    ensures { result ≡ notification_of name.now }
{
    match name {
        "notify-caller" => Some(Notification::NotifyCaller),
        "reveal-identity-to-caller" => Some(Notification::RevealToCaller),
        "reveal-served-user-identity-to-caller" => Some(Notification::RevealServedToCaller),
        "reveal-identity-to-target" => Some(Notification::RevealToTarget),
        _ => None,
    }
}

#[tactic(auto, unfolding(mmtel_sheet_grammar::specs::Keys::identity_key_of))]
fn identity_key(name: &str) -> Option<RuleKey>
    ensures { result ≡ identity_key_of name.now }
{
    match name {
        "anonymous" => Some(RuleKey::Anonymous),
        "except" => Some(RuleKey::Except),
        "many" => Some(RuleKey::Many),
        "one" => Some(RuleKey::One),
        _ => None,
    }
}

#[tactic(auto, unfolding(mmtel_sheet_grammar::specs::Keys::second_key_of))]
fn second_key(name: &str) -> Option<RuleKey>
    ensures { result ≡ second_key_of name.now }
{
    match name {
        "communication-diverted" => Some(RuleKey::Diverted),
        "day-from" => Some(RuleKey::DayFrom),
        "day-until" => Some(RuleKey::DayUntil),
        "days" => Some(RuleKey::Days),
        "international" => Some(RuleKey::International),
        "offset" => Some(RuleKey::Offset),
        _ => None,
    }
}

#[tactic(auto, unfolding(mmtel_sheet_grammar::specs::Keys::other_key_of))]
fn other_key(name: &str) -> Option<RuleKey>
    ensures { result ≡ other_key_of name.now }
{
    match name {
        "allow" => Some(RuleKey::Allow),
        "from" => Some(RuleKey::From),
        "id" => Some(RuleKey::Id),
        "media" => Some(RuleKey::Media),
        "target" => Some(RuleKey::Target),
        "until" => Some(RuleKey::Until),
        _ => None,
    }
}

fn second_or_other(name: &str) -> Option<RuleKey>
    ensures { result ≡ key_or (second_key_of name.now) (other_key_of name.now) }
{
    match second_key(name) {
        Some(key) => Some(key),
        None => other_key(name),
    }
}

fn identity_or_other(name: &str) -> Option<RuleKey>
    ensures { result ≡ key_or (identity_key_of name.now) (key_or (second_key_of name.now) (other_key_of name.now)) }
{
    match identity_key(name) {
        Some(key) => Some(key),
        None => second_or_other(name),
    }
}

fn notification_or_other(name: &str) -> Option<RuleKey>
    ensures { result ≡ notification_or (notification_of name.now) (key_or (identity_key_of name.now) (key_or (second_key_of name.now) (other_key_of name.now))) }
{
    match notification_key(name) {
        Some(notice) => Some(RuleKey::Notification(notice)),
        None => identity_or_other(name),
    }
}

/// The key of this name, if a rule has one.
pub fn rule_key(name: &str) -> Option<RuleKey>
    ensures { result ≡ rule_key_of name.now }
{
    match event(name) {
        Some(event) => Some(RuleKey::Event(event)),
        None => notification_or_other(name),
    }
}

/// Whether the record is of the second version.
fn is_version_two(version: Version) -> bool
    ensures { result ≡ is_version_two version }
{
    match version {
        Version::One => false,
        Version::Two => true,
    }
}

/// Whether the caller is known where the rules of the service are evaluated.
fn applies_to_callers(service: Service) -> bool
    ensures { result ≡ applies_to_callers service }
{
    match service {
        Service::Diversion | Service::Incoming => true,
        Service::Outgoing => false,
    }
}

/// Whether the rules of the service test where a call goes.
fn is_outgoing(service: Service) -> bool
    ensures { result ≡ is_outgoing service }
{
    match service {
        Service::Diversion | Service::Incoming => false,
        Service::Outgoing => true,
    }
}

/// Whether the rules have the key.
pub fn is_listed(schema: Schema, key: RuleKey) -> bool
    ensures { result ≡ is_listed schema key }
{
    match key {
        RuleKey::Allow => match schema.service {
            Service::Diversion => false,
            Service::Incoming | Service::Outgoing => true,
        },
        RuleKey::Anonymous => applies_to_callers(schema.service),
        RuleKey::DayFrom | RuleKey::DayUntil | RuleKey::Days | RuleKey::Offset => {
            is_version_two(schema.version)
        }
        RuleKey::Diverted => is_version_two(schema.version) && applies_to_callers(schema.service),
        RuleKey::International => is_version_two(schema.version) && is_outgoing(schema.service),
        RuleKey::Event(_) | RuleKey::Notification(_) | RuleKey::Target => match schema.service {
            Service::Diversion => true,
            Service::Incoming | Service::Outgoing => false,
        },
        RuleKey::Except
        | RuleKey::From
        | RuleKey::Id
        | RuleKey::Many
        | RuleKey::Media
        | RuleKey::One
        | RuleKey::Until => true,
    }
}

/// A key below another: `path.key`.
pub fn dotted_path(alloc: Global, path: &[u8], key: &[u8]) -> Result<Text, NoMemory>
    ensures { IfOk result (λ t. t ≡ dotted_path path.now key.now) }
{
    let mut out = Text::of(alloc, path)?;
    out.push(alloc, b".")?;
    out.push(alloc, key)?;
    Ok(out)
}

/// The path of a rule: `path.N`.
pub fn rule_path(alloc: Global, path: &[u8], number: usize) -> Result<Text, NoMemory>
    ensures { IfOk result (λ t. t ≡ rule_path path.now number) }
{
    let digits = number.to_string(alloc)?;
    dotted_path(alloc, path, digits.as_bytes())
}
