//! When a condition holds.
ghost use Rattle.std.specs.Prelude.{◌≡◌, ◌<◌};
ghost use Rattle.mmtel_rules.specs.Conditions.{condition_holds, event_holds, fact_holds, further_holds, hours_hold, is_event, is_offered, is_one_offered, local_minutes};
ghost use Rattle.mmtel_rules.specs.Conditions.{media_holds, minute_of_day, weekday, weekly_holds, window_holds};
ghost use Rattle.mmtel_rules.specs.Facts.{facts_view};

use crate::identities::identity_holds;
use crate::values::{Facts, When};
use mmtel_lex::{List, Text};
use mmtel_sheet_values::{Condition, EventWord, Weekly, Window};
use mmtel_types::Moment;

/// Whether the moment is within that time.
fn window_holds(window: &Option<Window>, now: Moment) -> bool
    ensures { result ≡ window_holds now window.now }
{
    match window {
        None => true,
        Some(window) => {
            let now = i128::from(now.ms());
            window.from <= now && now < window.until
        }
    }
}

/// The whole minutes since 1970 began, by a clock that is ahead of UTC by so many.
fn local_minutes(now: Moment, offset: i16) -> i64
    ensures { result ≡ local_minutes now offset }
{
    (now.ms() / 60_000) as i64 + i64::from(offset)
}

/// The day of the week, from Monday on.
fn weekday(minutes: i64) -> usize
    ensures day { result ≡ weekday minutes }
    ensures within { result < 7 }
{
    (minutes.div_euclid(1440) + 3).rem_euclid(7) as usize
}

/// The minutes since the day began.
fn minute_of_day(minutes: i64) -> u16
    ensures { result ≡ minute_of_day minutes }
{
    minutes.rem_euclid(1440) as u16
}

/// Whether the moment is within the hours of one of the days.
fn hours_hold(weekly: &Weekly, minutes: i64) -> bool
    ensures { result ≡ hours_hold weekly.now minutes }
{
    let minute = minute_of_day(minutes);
    weekly.days[weekday(minutes)] && weekly.from <= minute && minute < weekly.until
}

/// Whether the moment is within those hours of the week.
fn weekly_holds(weekly: &Option<Weekly>, now: Moment) -> bool
    ensures { result ≡ weekly_holds now weekly.now }
{
    match weekly {
        None => true,
        Some(weekly) => hours_hold(weekly, local_minutes(now, weekly.offset)),
    }
}

/// Whether the fact is true, where the condition requires it.
fn fact_holds(is_so: bool, requested: bool) -> bool
    ensures { result ≡ fact_holds is_so requested }
{
    !requested || is_so
}

/// Whether the call goes where the condition says, was diverted as it says, and arrives at its hours of the week.
fn further_holds(condition: &Condition, call_facts: &Facts) -> bool
    ensures { let facts = call_facts.entry.now in result ≡ further_holds (facts_view facts) condition.now }
{
    fact_holds(call_facts.diverted, condition.diverted)
        && fact_holds(call_facts.abroad, condition.abroad)
        && weekly_holds(&condition.weekly, call_facts.now)
}

/// Whether the kind of media is offered.
fn is_offered(word: &Text, offered: &[Text]) -> bool
    ensures { result ≡ is_offered offered.now word.now }
{
    offered.iter().any(|kind| kind.bytes() == word.bytes())
}

/// Whether one of the kinds of media is offered.
fn is_one_offered(words: &[Text], offered: &[Text]) -> bool
    ensures { result ≡ is_one_offered offered.now words.now }
{
    words.iter().any(|word| is_offered(word, offered))
}

/// Whether one of the kinds of media is offered, where the condition lists any.
fn media_holds(media: &Option<List<Text>>, offered: &[Text]) -> bool
    ensures { result ≡ media_holds offered.now media.now }
{
    match media {
        None => true,
        Some(words) => is_one_offered(words.items(), offered),
    }
}

/// Whether the event happened.
fn is_event(event: EventWord, when: When) -> bool
    ensures { result ≡ is_event event when }
{
    match when {
        When::Arrival { registered } => event == EventWord::NotRegistered && !registered,
        When::Busy => event == EventWord::Busy,
        When::NoAnswer => event == EventWord::NoAnswer,
        When::NotReachable => event == EventWord::NotReachable,
    }
}

/// Whether the event of the condition happened, or the arrival where it names none.
fn event_holds(event: Option<EventWord>, when: When) -> bool
    ensures { result ≡ event_holds when event }
{
    match event {
        None => matches!(when, When::Arrival { .. }),
        Some(event) => is_event(event, when),
    }
}

/// Whether the condition holds: each part of it that is present does (RFC 4745 §6, TS 24.604 §4.9.1). It allocates nothing.
#[tactic(auto, unfolding(crate::specs::Conditions::condition_holds))]
pub fn holds(condition: &Condition, call_facts: &Facts, when: When) -> bool
    ensures exact { let facts = call_facts.entry.now in result ≡ condition_holds (facts_view facts) when condition.now }
{
    let asked = match &condition.identity {
        None => true,
        Some(who) => identity_holds(call_facts.caller, who),
    };
    asked
        && fact_holds(call_facts.restricted, condition.anonymous)
        && window_holds(&condition.window, call_facts.now)
        && media_holds(&condition.media, call_facts.media.items())
        && further_holds(condition, call_facts)
        && event_holds(condition.event, when)
}
