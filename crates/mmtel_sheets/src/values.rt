//! The values at the keys of a record.
ghost use Rattle.std.specs.Prelude.{◌≡◌, ◌≤◌, IfOk, IfSome, IsUtf8, option_map, true};
ghost use Rattle.std.specs.List.{AllByRecursion};
ghost use Rattle.toml.specs.Data.{string, array, push_item};
ghost use Rattle.toml.specs.View.{view, array_view};
ghost use Rattle.mmtel_sheet_grammar.specs.Elements.{is_token_text, is_domain};
ghost use Rattle.mmtel_sheet_grammar.specs.Printable.{IsUriOfText, IsTarget, IsMoment, IsWho, IsWindow, IsWeekly, IsAction};
ghost use Rattle.mmtel_sheets.specs.Printing.{uri_data, uris_data, each_item, except_data, many_data, one_data, from_data, until_data, media_data, is_event, event_data};
ghost use Rattle.mmtel_sheets.specs.Printing.{anonymous_data, diverted_data, abroad_data, hour_text, day_from_data, day_until_data, with_word, day_words, days_data};
ghost use Rattle.mmtel_sheets.specs.Printing.{offset_data, bound_data, allow_data, target_data, notification_data, rejection_data};
ghost use Rattle.mmtel_sheets.specs.Times.{moment_text};

use crate::members::string_of;
use crate::moments::print_moment;
use mmtel_lex::{List, NoMemory, Text, Uri, print_uri};
use mmtel_sheet_grammar::keys::{Notification, Service};
use mmtel_sheet_values::{Action, EventWord, Weekly, Who, Window};
use std::alloc::Global;
use toml::Value;
use toml::value::Array;

/// A text.
pub fn text_value(alloc: Global, bytes: &[u8]) -> Result<Value, NoMemory>
    requires { IsUtf8 bytes.now }
    ensures { IfOk result (λ v. view v ≡ string bytes.now) }
{
    Ok(Value::String(string_of(alloc, bytes)?))
}

/// A URI.
fn uri_value(alloc: Global, uri: &Uri) -> Result<Value, NoMemory>
    requires { IsUriOfText uri.now }
    ensures { IfOk result (λ v. view v ≡ uri_data uri.now) }
{
    let text = print_uri(alloc, uri)?;
    text_value(alloc, text.bytes())
}

/// An array of URIs.
fn uris_value(alloc: Global, uris: &[Uri]) -> Result<Value, NoMemory>
    requires { AllByRecursion IsUriOfText uris.now }
    ensures { IfOk result (λ v. view v ≡ uris_data uris.now) }
{
    let mut array = Vec::new(alloc);
    'uris: for uri in uris {
        array.push(uri_value(alloc, uri)?)?;
    }
    Ok(Value::Array(array))
}

/// A token, a host or `*`.
fn token_value(alloc: Global, token: &Text) -> Result<Value, NoMemory>
    requires { is_token_text token.now ≡ true }
    ensures { IfOk result (λ v. view v ≡ string token.now) }
{
    text_value(alloc, token.bytes())
}

/// An array of tokens.
fn tokens_value(alloc: Global, tokens: &[Text]) -> Result<Value, NoMemory>
    requires { AllByRecursion (λ t. is_token_text t ≡ true) tokens.now }
    ensures { IfOk result (λ v. view v ≡ array (each_item string tokens.now)) }
{
    let mut array = Vec::new(alloc);
    'tokens: for token in tokens {
        array.push(token_value(alloc, token)?)?;
    }
    Ok(Value::Array(array))
}

/// The identities of a domain that are excepted, where there is a domain.
pub fn except_value(alloc: Global, who: &Option<Who>) -> Result<Option<Value>, NoMemory>
    requires { IfSome who.now IsWho }
    ensures { IfOk result (λ o. option_map view o ≡ except_data who.now) }
{
    match who {
        None => Ok(None),
        Some(who) => match &who.many {
            None => Ok(None),
            Some(_) => Ok(Some(uris_value(alloc, who.except.items())?)),
        },
    }
}

fn domain_value(alloc: Global, domain: &Text) -> Result<Value, NoMemory>
    requires { is_domain domain.now ≡ true }
    ensures { IfOk result (λ v. view v ≡ string domain.now) }
{
    text_value(alloc, domain.bytes())
}

/// The domain whose identities are meant.
pub fn many_value(alloc: Global, who: &Option<Who>) -> Result<Option<Value>, NoMemory>
    requires { IfSome who.now IsWho }
    ensures { IfOk result (λ o. option_map view o ≡ many_data who.now) }
{
    match who {
        None => Ok(None),
        Some(who) => match &who.many {
            None => Ok(None),
            Some(domain) => Ok(Some(domain_value(alloc, domain)?)),
        },
    }
}

/// The identities that are meant.
pub fn one_value(alloc: Global, who: &Option<Who>) -> Result<Option<Value>, NoMemory>
    requires { IfSome who.now IsWho }
    ensures { IfOk result (λ o. option_map view o ≡ one_data who.now) }
{
    match who {
        None => Ok(None),
        Some(who) => Ok(Some(uris_value(alloc, who.one.items())?)),
    }
}

fn moment_value(alloc: Global, moment: i128) -> Result<Value, NoMemory>
    requires { IsMoment moment }
    ensures { IfOk result (λ v. view v ≡ string (moment_text moment)) }
{
    let text = print_moment(moment);
    Ok(Value::String(String::from_str(alloc, text.as_str())?))
}

/// The start of a window.
pub fn from_value(alloc: Global, window: Option<Window>) -> Result<Option<Value>, NoMemory>
    requires { IfSome window IsWindow }
    ensures { IfOk result (λ o. option_map view o ≡ from_data window) }
{
    match window {
        None => Ok(None),
        Some(window) => Ok(Some(moment_value(alloc, window.from)?)),
    }
}

/// The end of a window.
pub fn until_value(alloc: Global, window: Option<Window>) -> Result<Option<Value>, NoMemory>
    requires { IfSome window IsWindow }
    ensures { IfOk result (λ o. option_map view o ≡ until_data window) }
{
    match window {
        None => Ok(None),
        Some(window) => Ok(Some(moment_value(alloc, window.until)?)),
    }
}

/// The kinds of media.
pub fn media_value(alloc: Global, media: &Option<List<Text>>) -> Result<Option<Value>, NoMemory>
    requires { IfSome media.now (λ tokens. AllByRecursion (λ t. is_token_text t ≡ true) tokens) }
    ensures { IfOk result (λ o. option_map view o ≡ media_data media.now) }
{
    match media {
        None => Ok(None),
        Some(tokens) => Ok(Some(tokens_value(alloc, tokens.items())?)),
    }
}

/// Whether this is the event of the rule.
fn is_event(wanted: EventWord, event: Option<EventWord>) -> bool
    ensures { result ≡ is_event wanted event }
{
    match event {
        None => false,
        Some(event) => match (wanted, event) {
            (EventWord::Busy, EventWord::Busy) => true,
            (EventWord::NoAnswer, EventWord::NoAnswer) => true,
            (EventWord::NotReachable, EventWord::NotReachable) => true,
            (EventWord::NotRegistered, EventWord::NotRegistered) => true,
            _ => false,
        },
    }
}

/// Whether the event is the rule's, where the service has events.
pub fn event_value(service: Service, wanted: EventWord, event: Option<EventWord>) -> Option<Value>
    ensures { option_map view result ≡ event_data service wanted event }
{
    match service {
        Service::Diversion => Some(Value::Boolean(is_event(wanted, event))),
        Service::Incoming => None,
        Service::Outgoing => None,
    }
}

/// Whether the caller is anonymous, where the caller is known to the service.
pub fn anonymous_value(service: Service, anonymous: bool) -> Option<Value>
    ensures { option_map view result ≡ anonymous_data service anonymous }
{
    match service {
        Service::Diversion => Some(Value::Boolean(anonymous)),
        Service::Incoming => Some(Value::Boolean(anonymous)),
        Service::Outgoing => None,
    }
}

/// Whether the call was diverted before, where the caller is known to the service.
pub fn diverted_value(service: Service, diverted: bool) -> Option<Value>
    ensures { option_map view result ≡ diverted_data service diverted }
{
    match service {
        Service::Diversion => Some(Value::Boolean(diverted)),
        Service::Incoming => Some(Value::Boolean(diverted)),
        Service::Outgoing => None,
    }
}

/// Whether the call goes to another country, where the service tests where a call goes.
pub fn abroad_value(service: Service, abroad: bool) -> Option<Value>
    ensures { option_map view result ≡ abroad_data service abroad }
{
    match service {
        Service::Diversion => None,
        Service::Incoming => None,
        Service::Outgoing => Some(Value::Boolean(abroad)),
    }
}

/// A time of the day, `HH:MM`, of the minutes since it began.
fn hour_value(alloc: Global, minutes: u16) -> Result<Value, NoMemory>
    requires { minutes ≤ 1_440 }
    ensures { IfOk result (λ v. view v ≡ string (hour_text minutes)) }
{
    let hour = (minutes / 60) as u8;
    let minute = (minutes % 60) as u8;
    let text = [
        b'0' + hour / 10,
        b'0' + hour % 10,
        b':',
        b'0' + minute / 10,
        b'0' + minute % 10,
    ];
    text_value(alloc, &text)
}

/// The first minute of the hours.
pub fn day_from_value(alloc: Global, weekly: Option<Weekly>) -> Result<Option<Value>, NoMemory>
    requires { IfSome weekly IsWeekly }
    ensures { IfOk result (λ o. option_map view o ≡ day_from_data weekly) }
{
    match weekly {
        None => Ok(None),
        Some(weekly) => Ok(Some(hour_value(alloc, weekly.from)?)),
    }
}

/// The first minute after the hours.
pub fn day_until_value(alloc: Global, weekly: Option<Weekly>) -> Result<Option<Value>, NoMemory>
    requires { IfSome weekly IsWeekly }
    ensures { IfOk result (λ o. option_map view o ≡ day_until_data weekly) }
{
    match weekly {
        None => Ok(None),
        Some(weekly) => Ok(Some(hour_value(alloc, weekly.until)?)),
    }
}

/// The array with one more day.
fn push_word(alloc: Global, mut array: Array, word: &str) -> Result<Array, NoMemory>
    ensures { IfOk result (λ a. array_view a ≡ push_item (array_view array) (string word.now)) }
{
    let day = String::from_str(alloc, word)?;
    array.push(Value::String(day))?;
    Ok(array)
}

/// The array with one more day, where it is one of those.
fn with_word(alloc: Global, array: Array, is_one: bool, word: &str) -> Result<Array, NoMemory>
    ensures { IfOk result (λ a. array_view a ≡ with_word (array_view array) is_one word.now) }
{
    if is_one {
        push_word(alloc, array, word)
    } else {
        Ok(array)
    }
}

/// The words of the days, from Monday on.
fn day_words(alloc: Global, days: [bool; 7]) -> Result<Array, NoMemory>
    ensures { IfOk result (λ a. array_view a ≡ day_words days) }
{
    let monday = with_word(alloc, Vec::new(alloc), days[0], "mon")?;
    let tuesday = with_word(alloc, monday, days[1], "tue")?;
    let wednesday = with_word(alloc, tuesday, days[2], "wed")?;
    let thursday = with_word(alloc, wednesday, days[3], "thu")?;
    let friday = with_word(alloc, thursday, days[4], "fri")?;
    let saturday = with_word(alloc, friday, days[5], "sat")?;
    with_word(alloc, saturday, days[6], "sun")
}

/// The days of the week.
pub fn days_value(alloc: Global, weekly: Option<Weekly>) -> Result<Option<Value>, NoMemory>
    ensures { IfOk result (λ o. option_map view o ≡ days_data weekly) }
{
    match weekly {
        None => Ok(None),
        Some(weekly) => Ok(Some(Value::Array(day_words(alloc, weekly.days)?))),
    }
}

/// The minutes by which the clock of the hours is ahead of UTC.
pub fn offset_value(weekly: Option<Weekly>) -> Option<Value>
    ensures { option_map view result ≡ offset_data weekly }
{
    match weekly {
        None => None,
        Some(weekly) => Some(Value::Integer(i64::from(weekly.offset))),
    }
}

/// The bound of the diversions of a call.
pub fn bound_value(bound: Option<u8>) -> Option<Value>
    ensures { option_map view result ≡ bound_data bound }
{
    match bound {
        None => None,
        Some(bound) => Some(Value::Integer(i64::from(bound))),
    }
}

/// Whether the call is allowed.
pub fn allow_value(action: &Action) -> Option<Value>
    ensures { option_map view result ≡ allow_data action.now }
{
    match action {
        Action::Forward(_) => None,
        Action::Allow(allow) => Some(Value::Boolean(*allow)),
    }
}

/// Where the call goes.
pub fn target_value(
    alloc: Global,
    service: Service,
    action: &Action,
) -> Result<Option<Value>, NoMemory>
    requires { IsAction service action.now }
    ensures { IfOk result (λ o. option_map view o ≡ target_data action.now) }
{
    match action {
        Action::Forward(forward) => Ok(Some(uri_value(alloc, &forward.target)?)),
        Action::Allow(_) => Ok(None),
    }
}

/// Whether a party is notified of the diversion.
pub fn notification_value(notification: Notification, action: &Action) -> Option<Value>
    ensures { option_map view result ≡ notification_data notification action.now }
{
    match action {
        Action::Forward(forward) => Some(Value::Boolean(match notification {
            Notification::NotifyCaller => forward.notify_caller,
            Notification::RevealToCaller => forward.reveal_to_caller,
            Notification::RevealServedToCaller => forward.reveal_served_to_caller,
            Notification::RevealToTarget => forward.reveal_to_target,
        })),
        Action::Allow(_) => None,
    }
}

/// Whether anonymous callers are refused, where the service can refuse them.
pub fn rejection_value(service: Service, reject_anonymous: bool) -> Option<Value>
    ensures { option_map view result ≡ rejection_data service reject_anonymous }
{
    match service {
        Service::Diversion => None,
        Service::Incoming => Some(Value::Boolean(reject_anonymous)),
        Service::Outgoing => None,
    }
}
