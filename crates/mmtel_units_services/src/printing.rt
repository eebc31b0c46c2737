//! Sheets as records.

use crate::asserting::assert_right;
use mmtel_lex::{List, NoMemory, Text};
use mmtel_sheets::{BarPart, DiversionPart, Restriction, Sheet, print_sheet, read_sheet};
use mmtel_test_tables::Transcript;
use std::alloc::Global;

/// The number of the first line in which the printed record differs; 0 where there is none. A line `#` ends it.
fn wrong_text(alloc: Global, printed: Result<Text, NoMemory>, record: &[u8]) -> usize {
    let mut transcript = Transcript::new(alloc);
    let printed = transcript.text_or_fail(printed);
    transcript.add(printed.bytes());
    transcript.add(b"#\n");
    transcript.wrong_line(record)
}

/// The record of an empty sheet: each part that is always present, with its default.
const EMPTY: &[u8] = b"version = 2

[originating-identity-presentation]
active = true

[originating-identity-presentation-restriction]
active = false
default-behaviour = \"presentation-not-restricted\"
mode = \"temporary\"

[terminating-identity-presentation]
active = true

[terminating-identity-presentation-restriction]
active = false
default-behaviour = \"presentation-not-restricted\"
mode = \"temporary\"
#
";

fn wrong_empty(alloc: Global) -> usize {
    let sheet = Sheet::empty();
    let printed = print_sheet(alloc, &sheet);
    drop(sheet);
    wrong_text(alloc, printed, EMPTY)
}

/// The record of a sheet with each part, without rules.
const EACH_PART: &[u8] = b"version = 2

[communication-diversion]
active = true
bound = 16
deflection = true
no-reply-time = 30
rule = []

[communication-waiting]
active = true
calls = 3

[incoming-communication-barring]
active = true
reject-anonymous = true
rule = []

[originating-identity-presentation]
active = false

[originating-identity-presentation-restriction]
active = true
default-behaviour = \"presentation-not-restricted\"
mode = \"permanent\"

[outgoing-communication-barring]
active = true
rule = []

[terminating-identity-presentation]
active = false

[terminating-identity-presentation-restriction]
active = true
default-behaviour = \"presentation-restricted\"
mode = \"temporary\"
#
";

fn wrong_each_part(alloc: Global) -> usize {
    let sheet = Sheet {
        diversion: Some(DiversionPart {
            rules: List::new(),
            no_reply: 30,
            deflection: true,
            bound: Some(16),
        }),
        incoming: Some(BarPart {
            rules: List::new(),
            reject_anonymous: true,
        }),
        outgoing: Some(BarPart {
            rules: List::new(),
            reject_anonymous: false,
        }),
        oip: false,
        oir: Restriction {
            active: true,
            permanent: true,
            by_default: false,
        },
        tip: false,
        tir: Restriction {
            active: true,
            permanent: false,
            by_default: true,
        },
        waiting: Some(3),
    };
    let printed = print_sheet(alloc, &sheet);
    drop(sheet);
    wrong_text(alloc, printed, EACH_PART)
}

/// A rule of each kind, as a user may write it.
const WRITTEN: &[u8] = br#"# Each part of a condition, and each notice.
version = 2
[[communication-diversion.rule]]
id = "at night"
one = ["SIP:a@home.example:05060;user=phone", 'tel:+49-30-1']
many = "Partner.example"
except = ["sip:b@partner.example", "sip:c@partner.example"]
anonymous = true
from = "2026-11-27T22:00:00+01:00"
until = "2026-11-28T06:00:00.2509+01:00"
media = ["audio", "video"]
busy = true
communication-diverted = true
days = ["sun", "mon"]
day-from = "22:00"
day-until = "24:00"
offset = -60
target = "sip:night@home.example"
notify-caller = false
reveal-identity-to-target = false
[[communication-diversion.rule]]
no-answer = true
target = "tel:+4930222"
reveal-identity-to-caller = false
[[communication-diversion.rule]]
not-reachable = true
one = ["sip:d@home.example"]
target = "sip:home.example"
reveal-served-user-identity-to-caller = false
[[communication-diversion.rule]]
not-registered = true
many = "*"
target = "sip:e@home.example"
[[communication-diversion.rule]]
from = "0001-01-01T00:00:00Z"
until = "9999-12-30T22:00:00.999Z"
media = []
target = "sip:f@home.example"
[incoming-communication-barring]
rule = [{allow = true, anonymous = true, communication-diverted = true}, {allow = false, one = []}]
[outgoing-communication-barring]
rule = [{allow = false, many = "far.example", except = ["tel:+1"], international = true}, {allow = true, day-from = "00:00", day-until = "09:05", days = ["wed"]}]
"#;

/// The same as it is printed, with a line `#` after it.
const PRINTED: &[u8] = br#"version = 2

[communication-diversion]
active = true
deflection = false
no-reply-time = 20

[[communication-diversion.rule]]
anonymous = true
busy = true
communication-diverted = true
day-from = "22:00"
day-until = "24:00"
days = ["mon", "sun"]
except = ["sip:b@partner.example", "sip:c@partner.example"]
from = "2026-11-27T21:00:00.000Z"
many = "Partner.example"
media = ["audio", "video"]
no-answer = false
not-reachable = false
not-registered = false
notify-caller = false
offset = -60
one = ["sip:a@home.example:5060;user=phone", "tel:+49-30-1"]
reveal-identity-to-caller = true
reveal-identity-to-target = false
reveal-served-user-identity-to-caller = true
target = "sip:night@home.example"
until = "2026-11-28T05:00:00.250Z"

[[communication-diversion.rule]]
anonymous = false
busy = false
communication-diverted = false
no-answer = true
not-reachable = false
not-registered = false
notify-caller = true
reveal-identity-to-caller = false
reveal-identity-to-target = true
reveal-served-user-identity-to-caller = true
target = "tel:+4930222"

[[communication-diversion.rule]]
anonymous = false
busy = false
communication-diverted = false
no-answer = false
not-reachable = true
not-registered = false
notify-caller = true
one = ["sip:d@home.example"]
reveal-identity-to-caller = true
reveal-identity-to-target = true
reveal-served-user-identity-to-caller = false
target = "sip:home.example"

[[communication-diversion.rule]]
anonymous = false
busy = false
communication-diverted = false
except = []
many = "*"
no-answer = false
not-reachable = false
not-registered = true
notify-caller = true
one = []
reveal-identity-to-caller = true
reveal-identity-to-target = true
reveal-served-user-identity-to-caller = true
target = "sip:e@home.example"

[[communication-diversion.rule]]
anonymous = false
busy = false
communication-diverted = false
from = "0001-01-01T00:00:00.000Z"
media = []
no-answer = false
not-reachable = false
not-registered = false
notify-caller = true
reveal-identity-to-caller = true
reveal-identity-to-target = true
reveal-served-user-identity-to-caller = true
target = "sip:f@home.example"
until = "9999-12-30T22:00:00.999Z"

[incoming-communication-barring]
active = true
reject-anonymous = false

[[incoming-communication-barring.rule]]
allow = true
anonymous = true
communication-diverted = true

[[incoming-communication-barring.rule]]
allow = false
anonymous = false
communication-diverted = false
one = []

[originating-identity-presentation]
active = true

[originating-identity-presentation-restriction]
active = false
default-behaviour = "presentation-not-restricted"
mode = "temporary"

[outgoing-communication-barring]
active = true

[[outgoing-communication-barring.rule]]
allow = false
except = ["tel:+1"]
international = true
many = "far.example"
one = []

[[outgoing-communication-barring.rule]]
allow = true
day-from = "00:00"
day-until = "09:05"
days = ["wed"]
international = false
offset = 0

[terminating-identity-presentation]
active = true

[terminating-identity-presentation-restriction]
active = false
default-behaviour = "presentation-not-restricted"
mode = "temporary"
#
"#;

/// The number of the first line in which the printed sheet of a record differs.
fn wrong_record(alloc: Global, record: &[u8], wanted: &[u8]) -> usize {
    match read_sheet(alloc, record) {
        Ok(sheet) => {
            let printed = print_sheet(alloc, &sheet);
            drop(sheet);
            wrong_text(alloc, printed, wanted)
        }
        Err(_) => 1,
    }
}

/// Sheets without rules; and a rule of each kind: what is printed for the record, and for what was printed.
#[test]
fn prints_sheets(rt: HostRuntime) {
    assert_right(&rt, "empty", wrong_empty(rt.alloc()));
    assert_right(&rt, "each_part", wrong_each_part(rt.alloc()));
    assert_right(&rt, "WRITTEN", wrong_record(rt.alloc(), WRITTEN, PRINTED));
    assert_right(&rt, "PRINTED", wrong_record(rt.alloc(), PRINTED, PRINTED));
}
