//! Whose identity is restricted, and to whom which identity is presented (TS 24.607 and 24.608, RFC 3323 §4.2).
//!
//! The results of a row are four: `r` where the caller is restricted, `r` where the called party is, `p` where the caller is presented to the called party, `p` where the called
//! party is presented to the caller; `-` for each that is false. After them are the words of Privacy. The record of the account that is served is above, as tables separated by
//! `&`; above the first rows there is no account.

use crate::asserting::assert_right;
use crate::reading::{Table, read_tables, wrong_line};
use mmtel_identity::{callee_restricted, caller_restricted, present_to};
use mmtel_sheet_values::Sheet;
use mmtel_test_tables::{Transcript, split_or_all};
use mmtel_types::{PrivacySet, Side};

/// Whether the word is one of these, which have a space between two.
fn has(words: &[u8], word: &[u8]) -> bool {
    let mut rest = words;
    for _ in 0..8 {
        let (first, later) = split_or_all(b' ', rest);
        if first == word {
            return true;
        }
        rest = later;
    }
    false
}

fn privacy(words: &[u8]) -> PrivacySet {
    PrivacySet {
        header: has(words, b"header"),
        session: has(words, b"session"),
        user: has(words, b"user"),
        none: has(words, b"none"),
        critical: has(words, b"critical"),
        id: has(words, b"id"),
        history: has(words, b"history"),
    }
}

/// Writes the four results.
fn write_responses(transcript: &mut Transcript, words: &PrivacySet, sheet: Option<&Sheet>) {
    transcript.add_if(caller_restricted(words, sheet), b"r", b"-");
    transcript.add_if(callee_restricted(words, sheet), b"r", b"-");
    transcript.add_if(present_to(sheet, Side::Callee), b"p", b"-");
    transcript.add_if(present_to(sheet, Side::Caller), b"p", b"-");
}

/// Restrictions and presentations.
struct Identities;

impl Table for Identities {
    fn write_row(transcript: &mut Transcript, line: &[u8], asked: &[u8]) {
        let words = privacy(asked);
        match line {
            [] => write_responses(transcript, &words, None),
            [_colon, tables @ ..] => {
                if let Some(sheet) = read_tables(transcript, b'&', tables) {
                    write_responses(transcript, &words, Some(&sheet));
                    drop(sheet);
                }
            }
        }
    }
}

/// Words of Privacy, modes of the restriction, and presentations.
const IDENTITIES: &[u8] =
    b"# The words that hide restrict both parties, whatever the record says; the others restrict nobody.
--pp|
rrpp|id
rrpp|user
rrpp|header
rrpp|session id critical
--pp|none
--pp|session critical
--pp|history
:
--pp|
rrpp|id
rrpp|user
rrpp|header
--pp|none
--pp|session critical history
:originating-identity-presentation-restriction = { active = false, mode = \"permanent\" }&terminating-identity-presentation-restriction = { active = false, \
default-behaviour = \"presentation-restricted\" }
--pp|
rrpp|id
--pp|none
# A temporary restriction by default yields to the word `none`, and a permanent one does not; the originating service is of the caller, and
# the terminating one of the called party.
:originating-identity-presentation-restriction = { default-behaviour = \"presentation-restricted\" }
r-pp|
--pp|none
rrpp|id
rrpp|id none
r-pp|session
:originating-identity-presentation-restriction = { mode = \"permanent\" }
r-pp|
r-pp|none
rrpp|header none
:originating-identity-presentation-restriction = { mode = \"permanent\", default-behaviour = \"presentation-restricted\" }
r-pp|none
:originating-identity-presentation-restriction = { mode = \"temporary\" }
--pp|
--pp|none
rrpp|user
:terminating-identity-presentation-restriction = { default-behaviour = \"presentation-restricted\" }
-rpp|
--pp|none
rrpp|id
:terminating-identity-presentation-restriction = { mode = \"permanent\" }
-rpp|
-rpp|none
:originating-identity-presentation-restriction = { default-behaviour = \"presentation-restricted\" }&terminating-identity-presentation-restriction = { mode = \"permanent\" }
rrpp|
-rpp|none
# The called party is shown the caller by its originating presentation, the caller the called party by its terminating one.
:originating-identity-presentation = { active = false }
---p|
rr-p|id
:terminating-identity-presentation = { active = false }
--p-|
:originating-identity-presentation = { active = true }&terminating-identity-presentation = { active = false }
--p-|none
:originating-identity-presentation = { active = false }&terminating-identity-presentation = { active = false }
----|
";

#[test]
fn restrictions_and_presentations(rt: HostRuntime) {
    assert_right(
        &rt,
        "IDENTITIES",
        wrong_line::<Identities>(rt.alloc(), IDENTITIES),
    );
}
