//! Targets of a call: those of a Request-URI, those of diversions, the home domain, and which are of no account.

use crate::asserting::assert_right;
use mmtel_lex::{Uri, UriFault, print_uri, read_uri};
use mmtel_served_user::{Target, diverted_target, first_target, is_at_home, is_global_number};
use mmtel_test_tables::{RowRunner, Transcript, wrong_line};
use mmtel_types::Account;

const HOME: &[u8] = b"home.example";

/// Adds the word where the condition is true.
fn add_if(transcript: &mut Transcript, is: bool, word: &[u8]) {
    if is {
        transcript.add(word);
    }
}

/// A target; whether it is a global number, was made of one, is of the home domain; whether it is refused as of no account where it has none, and where it has one.
fn add_target(transcript: &mut Transcript, word: &[u8], target: &Target) {
    transcript.add(word);
    match print_uri(transcript.alloc, &target.uri) {
        Ok(text) => transcript.add(text.bytes()),
        Err(_) => transcript.fail(),
    }
    add_if(transcript, is_global_number(&target.uri), b" global");
    add_if(transcript, target.of_number, b" made");
    add_if(transcript, is_at_home(HOME, &target.uri), b" home");
    add_if(transcript, target.is_unknown(HOME, None), b" nobody");
    add_if(
        transcript,
        target.is_unknown(HOME, Some(Account(1))),
        b" nobody's account",
    );
    transcript.add_line(b"");
}

fn add_diverted(transcript: &mut Transcript, uri: Uri) {
    match diverted_target(transcript.alloc, HOME, uri) {
        Ok(target) => add_target(transcript, b"diverted ", &target),
        Err(_) => transcript.fail(),
    }
}

/// Writes the target that a Request-URI names, and that of a diversion to it, where it is a URI.
#[derive(Drop)]
struct Targets;

impl RowRunner for Targets {
    fn run_row(&mut self, transcript: &mut Transcript, asked: &[u8]) {
        match first_target(transcript.alloc, asked) {
            Ok(Some(target)) => add_target(transcript, b"first ", &target),
            Ok(None) => transcript.add_line(b"none"),
            Err(_) => transcript.fail(),
        }
        match read_uri(transcript.alloc, asked) {
            Ok(uri) => add_diverted(transcript, uri),
            Err(UriFault::NoMemory) => transcript.fail(),
            Err(_) => {}
        }
    }
}

/// A Request-URI stays as it is, a number too. A diversion to a global number, with separators and parameters, goes to the home domain and is never refused as of no account (RFC
/// 3261 §19.1.6);
/// the same URI without a diversion, and others of the home domain, whose case does not count, are refused where they have no account; a local number and another domain never are.
/// Another scheme and what is no URI give no target.
const TARGETS: &[u8] = br#"> tel:+49(30)1-1.1;x=y
first tel:+49(30)1-1.1;x=y global
diverted sip:+4930111@home.example;user=phone made home
> sip:+4930111@home.example;user=phone
first sip:+4930111@home.example;user=phone home nobody
diverted sip:+4930111@home.example;user=phone home nobody
> sip:eve@HOME.Example:5070;a=b
first sip:eve@HOME.Example:5070;a=b home nobody
diverted sip:eve@HOME.Example:5070;a=b home nobody
> sip:home.example
first sip:home.example home nobody
diverted sip:home.example home nobody
> tel:11-2;phone-context=home.example
first tel:11-2;phone-context=home.example
diverted tel:11-2;phone-context=home.example
> sip:home.example@far.example
first sip:home.example@far.example
diverted sip:home.example@far.example
> sip:vm@far.example
first sip:vm@far.example
diverted sip:vm@far.example
> sips:bob@home.example
none
> sip:
none
"#;

#[test]
fn targets_of_calls(rt: HostRuntime) {
    assert_right(
        &rt,
        "TARGETS",
        wrong_line(rt.alloc(), &mut Targets, TARGETS),
    );
}
