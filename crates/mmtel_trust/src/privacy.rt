//! The words of Privacy (RFC 3323 §4.2).
ghost use Rattle.std.specs.Prelude.{if◌then◌else◌, codes, [], ◌≡◌, ◌++◌, drop, IfOk, OnOk};
ghost use Rattle.std.specs.List.{flat_map};
ghost use Rattle.mmtel_message.specs.Values.{values_in};
ghost use Rattle.mmtel_message.specs.declared.values.Mode.TheVariants.{Words};
ghost use Rattle.mmtel_trust.specs.FoundWords.{with_word, with_words};
ghost use Rattle.mmtel_trust.specs.Privacy.{words, has_word, wants, restricted_text};
ghost use Rattle.mmtel_trust.specs.WrittenWords.{separated_word};

use crate::texts::equals_ignoring_case;
use mmtel_base::{Class, trim};
use mmtel_lex::{NoMemory, Text};
use mmtel_message::{Mode, Msg, next_part};
use mmtel_types::PrivacySet;
use std::alloc::Global;

/// Which words are found before any was examined.
fn no_words() -> PrivacySet
    ensures { result ≡ wants [] }
{
    PrivacySet {
        header: false,
        session: false,
        user: false,
        none: false,
        critical: false,
        id: false,
        history: false,
    }
}

/// The words found before, and this word.
fn with_word(found: PrivacySet, word: &[u8]) -> PrivacySet
    ensures { result ≡ with_word found word.now }
{
    PrivacySet {
        header: found.header || equals_ignoring_case(word, b"header"),
        session: found.session || equals_ignoring_case(word, b"session"),
        user: found.user || equals_ignoring_case(word, b"user"),
        none: found.none || equals_ignoring_case(word, b"none"),
        critical: found.critical || equals_ignoring_case(word, b"critical"),
        id: found.id || equals_ignoring_case(word, b"id"),
        history: found.history || equals_ignoring_case(word, b"history"),
    }
}

/// The words found before, and those of a value.
fn with_value(found: PrivacySet, value: &[u8]) -> PrivacySet
    ensures { result ≡ with_words found (values_in Words value.now) }
{
    let mut found = found;
    let mut rest = Some(value);
    'words: while let Some(more) = rest {
        let (word, after) = next_part(Mode::Words, more);
        found = with_word(found, trim(Class::Blank, word));
        rest = after;
    }
    found
}

/// Which of the known words the Privacy lines of a message have (RFC 3323 §4.2), compared without case. It allocates nothing.
pub fn wants(message: &Msg) -> PrivacySet
    ensures words { result ≡ wants message.now.lines }
{
    let mut found = no_words();
    for value in message.values_in(b"Privacy") {
        found = with_value(found, value);
    }
    found
}

fn add_word(alloc: Global, out: &mut Text, word: &[u8]) -> Result<(), NoMemory>
    ensures { OnOk result (out.new ≡ out.old ++ separated_word word.now) }
{
    if equals_ignoring_case(word, b"none") {
        return Ok(());
    }
    out.push(alloc, b";")?;
    out.push(alloc, word)
}

fn add_value(alloc: Global, out: &mut Text, value: &[u8]) -> Result<(), NoMemory>
    ensures { OnOk result (out.new ≡ out.old ++ flat_map separated_word (values_in Words value.now)) }
{
    let mut rest = Some(value);
    'words: while let Some(more) = rest {
        let (word, after) = next_part(Mode::Words, more);
        add_word(alloc, out, trim(Class::Blank, word))?;
        rest = after;
    }
    Ok(())
}

fn add_words(alloc: Global, out: &mut Text, message: &Msg) -> Result<(), NoMemory>
    ensures { OnOk result (out.new ≡ out.old ++ flat_map separated_word (words message.now.lines)) }
{
    for value in message.values_in(b"Privacy") {
        add_value(alloc, out, value)?;
    }
    Ok(())
}

fn add_id(alloc: Global, out: &mut Text, message: &Msg) -> Result<(), NoMemory>
    ensures { OnOk result (out.new ≡ out.old ++ (if has_word (codes "id") message.now.lines then [] else codes ";id")) }
{
    if wants(message).id {
        return Ok(());
    }
    out.push(alloc, b";id")
}

/// The remaining words and `id`, each after a `;`.
#[tactic(auto, using(crate::proofs::WordTheorems::behind_text))]
fn separated_words(alloc: Global, message: &Msg) -> Result<Text, NoMemory>
    ensures { IfOk result (λ t. drop 1 t ≡ restricted_text message.now.lines) }
{
    let mut out = Text::new();
    add_words(alloc, &mut out, message)?;
    add_id(alloc, &mut out, message)?;
    Ok(out)
}

fn without_first(alloc: Global, bytes: &[u8]) -> Result<Text, NoMemory>
    ensures { IfOk result (λ t. t ≡ drop 1 bytes.now) }
{
    match bytes {
        [] => Ok(Text::new()),
        [_, rest @ ..] => Text::of(alloc, rest),
    }
}

/// The value of Privacy of a restricted call towards a trusted peer: the words without `none`, and with `id`.
pub fn restricted_text(alloc: Global, message: &Msg) -> Result<Text, NoMemory>
    ensures { IfOk result (λ t. t ≡ restricted_text message.now.lines) }
{
    let out = separated_words(alloc, message)?;
    let text = without_first(alloc, out.bytes());
    drop(out);
    text
}
