//! The sheet of an account without a record, and the no-reply time of a sheet.
ghost use Rattle.std.specs.Prelude.{◌≡◌};
ghost use Rattle.std.specs.List.{list_any};
ghost use Rattle.mmtel_sheet_values.specs.Sheets.{empty_sheet};
ghost use Rattle.mmtel_sheet_values.specs.NoReply.{is_no_answer, is_no_answer_rule, part_no_reply_time, no_reply_time};

use crate::values::{DiversionPart, EventWord, Restriction, Rule, Sheet};

/// Whether this is the event of no answer.
fn is_no_answer(event: Option<EventWord>) -> bool
    ensures { result ≡ is_no_answer event }
{
    match event {
        None => false,
        Some(event) => event == EventWord::NoAnswer,
    }
}

/// Whether one of the rules is for calls that are not answered.
fn has_no_answer_rule(rules: &[Rule]) -> bool
    ensures { result ≡ list_any is_no_answer_rule rules.now }
{
    rules.iter().any(|rule| is_no_answer(rule.condition.event))
}

/// The no-reply time of a diversion that is active.
fn part_no_reply_time(part: &DiversionPart) -> Option<u64>
    ensures { result ≡ part_no_reply_time part.now }
{
    if has_no_answer_rule(part.rules.items()) {
        Some(u64::from(part.no_reply) * 1000)
    } else {
        None
    }
}

impl Sheet {
    /// The sheet of an account without a record, which is that of an empty record. It allocates nothing.
    pub fn empty() -> Sheet
        ensures its { result ≡ empty_sheet }
    {
        let off = Restriction {
            active: false,
            permanent: false,
            by_default: false,
        };
        Sheet {
            diversion: None,
            incoming: None,
            outgoing: None,
            oip: true,
            oir: off,
            tip: true,
            tir: off,
            waiting: None,
        }
    }

    /// The no-reply time (TS 24.604 §4.9.1): the milliseconds after which a ringing call counts as not answered. None where the diversion is absent or not active, or has no rule
    /// for calls that are not answered. It allocates nothing.
    pub fn no_reply_time(&self) -> Option<u64>
        ensures exact { result ≡ no_reply_time self.now }
    {
        match &self.diversion {
            None => None,
            Some(part) => part_no_reply_time(part),
        }
    }
}
