//! The commands, each read by a command of `clap` that was built for it.
ghost use Rattle.std.specs.Prelude.{◌≡◌, ◌∷◌, ℕ, IfOk, IfSome, List, Some, codes, false, map};
ghost use Rattle.clap.specs.Words.{app_of, rule_of};
ghost use Rattle.mmtel_words.specs.CommandLine.{Command as Spelled, EachText, IsCommand};
ghost use Rattle.mmtel_words.specs.Commands.{command_if_any};
ghost use Rattle.mmtel_words.specs.Rules.{bare_command, file_app, option_arg, position_arg, replay_app, serve_app, workload_app};
ghost use Rattle.mmtel_words.specs.Reads.{AreTexts, IsOneFile, ReadsCommand};

use crate::faults::WordsFault;
use crate::values::{find_matches, number, small_number, text, token};
use crate::wanted_commands::{Replay, Serve, WantedCommand};
use clap::{Arg, Command};
use mmtel_base::{NoMemory, Text};
use std::alloc::{AllocError, Global};

/// The greatest number of turns.
const TURNS: u64 = 1_000_000_000;

/// The greatest number of calls of a workload.
const CALLS: u32 = 10_000;

/// The greatest salt of a workload.
const SALT: u32 = 4_294_967_295;

/// A command whose words do not begin with the program's name, and that has no help option.
fn bare_command<'a>(alloc: Global, name: &'a str) -> Command<'a>
    ensures { app_of result ≡ bare_command name.entry.now }
{
    Command::new(alloc, name)
        .no_binary_name(true)
        .disable_help_flag(true)
}

/// A required option, with a value.
fn option<'a>(alloc: Global, name: &'a str) -> Arg<'a>
    ensures rule { rule_of result ≡ option_arg name.entry.now }
    ensures local { result.global ≡ false }
{
    Arg::new(alloc, name).long(name).required(true)
}

/// A required positional word.
fn positional<'a>(alloc: Global, name: &'a str) -> Arg<'a>
    ensures rule { rule_of result ≡ position_arg name.entry.now }
    ensures local { result.global ≡ false }
{
    Arg::new(alloc, name).required(true)
}

/// `serve CONFIG --token T --turns N`.
fn serve_command<'a>(alloc: Global) -> Result<Command<'a>, AllocError>
    ensures { IfOk result (λ c. app_of c ≡ serve_app) }
{
    bare_command(alloc, "serve")
        .arg(option(alloc, "token"))?
        .arg(option(alloc, "turns"))?
        .arg(positional(alloc, "config"))
}

/// `replay CONFIG SCRIPT --token T`.
fn replay_command<'a>(alloc: Global) -> Result<Command<'a>, AllocError>
    ensures { IfOk result (λ c. app_of c ≡ replay_app) }
{
    bare_command(alloc, "replay")
        .arg(option(alloc, "token"))?
        .arg(positional(alloc, "config"))?
        .arg(positional(alloc, "script"))
}

/// A command of one positional word.
fn file_command<'a>(alloc: Global, name: &'a str) -> Result<Command<'a>, AllocError>
    ensures { IfOk result (λ c. app_of c ≡ file_app name.entry.now) }
{
    bare_command(alloc, name).arg(positional(alloc, "file"))
}

/// `workload --calls N --salt S`.
fn workload_command<'a>(alloc: Global) -> Result<Command<'a>, AllocError>
    ensures { IfOk result (λ c. app_of c ≡ workload_app) }
{
    bare_command(alloc, "workload")
        .arg(option(alloc, "calls"))?
        .arg(option(alloc, "salt"))
}

/// What the words after `serve` request.
fn read_serve<'a>(alloc: Global, words: &'a [&'a str]) -> Result<WantedCommand, WordsFault>
    requires { EachText (codes "serve" ∷ map (λ w. w.now) words.now) }
    ensures { ReadsCommand (codes "serve" ∷ map (λ w. w.now) words.entry.now) result }
{
    let Ok(command) = serve_command(alloc) else {
        return Err(WordsFault::NoMemory);
    };
    let matches = find_matches(command, words)?;
    let token = token(alloc, &matches, "token")?;
    let turns = number(&matches, "turns", 1, TURNS)?;
    let config = text(alloc, &matches, "config")?;
    Ok(WantedCommand::Serve(Serve {
        config,
        token,
        turns,
    }))
}

/// What the words after `replay` request.
fn read_replay<'a>(alloc: Global, words: &'a [&'a str]) -> Result<WantedCommand, WordsFault>
    requires { EachText (codes "replay" ∷ map (λ w. w.now) words.now) }
    ensures { ReadsCommand (codes "replay" ∷ map (λ w. w.now) words.entry.now) result }
{
    let Ok(command) = replay_command(alloc) else {
        return Err(WordsFault::NoMemory);
    };
    let matches = find_matches(command, words)?;
    let token = token(alloc, &matches, "token")?;
    let config = text(alloc, &matches, "config")?;
    let script = text(alloc, &matches, "script")?;
    Ok(WantedCommand::Replay(Replay {
        config,
        script,
        token,
    }))
}

/// The one word after `check` or `charges`.
fn read_file<'a>(alloc: Global, name: &'a str, words: &'a [&'a str]) -> Result<Text, WordsFault>
    requires { EachText (name.now ∷ map (λ w. w.now) words.now) }
    ensures { IsOneFile name.entry.now (map (λ w. w.now) words.entry.now) result }
{
    let Ok(command) = file_command(alloc, name) else {
        return Err(WordsFault::NoMemory);
    };
    let matches = find_matches(command, words)?;
    text(alloc, &matches, "file")
}

/// What the words after `workload` request.
fn read_workload<'a>(alloc: Global, words: &'a [&'a str]) -> Result<WantedCommand, WordsFault>
    requires { EachText (codes "workload" ∷ map (λ w. w.now) words.now) }
    ensures { ReadsCommand (codes "workload" ∷ map (λ w. w.now) words.entry.now) result }
{
    let Ok(command) = workload_command(alloc) else {
        return Err(WordsFault::NoMemory);
    };
    let matches = find_matches(command, words)?;
    let calls = small_number(&matches, "calls", 1, CALLS)?;
    let salt = small_number(&matches, "salt", 0, SALT)?;
    Ok(WantedCommand::Workload { calls, salt })
}

/// What the words after `check` request.
fn read_check<'a>(alloc: Global, words: &'a [&'a str]) -> Result<WantedCommand, WordsFault>
    requires { EachText (codes "check" ∷ map (λ w. w.now) words.now) }
    ensures { ReadsCommand (codes "check" ∷ map (λ w. w.now) words.entry.now) result }
{
    let records = read_file(alloc, "check", words)?;
    Ok(WantedCommand::Check(records))
}

/// What the words after `charges` request.
fn read_charges<'a>(alloc: Global, words: &'a [&'a str]) -> Result<WantedCommand, WordsFault>
    requires { EachText (codes "charges" ∷ map (λ w. w.now) words.now) }
    ensures { ReadsCommand (codes "charges" ∷ map (λ w. w.now) words.entry.now) result }
{
    let config = read_file(alloc, "charges", words)?;
    Ok(WantedCommand::Charges(config))
}

/// The command that this first word and the words after it are.
fn read_rest<'a>(
    alloc: Global,
    name: &str,
    words: &'a [&'a str],
) -> Result<WantedCommand, WordsFault>
    requires { EachText (name.now ∷ map (λ w. w.now) words.now) }
    ensures { ReadsCommand (name.now ∷ map (λ w. w.now) words.entry.now) result }
{
    if name == "serve" {
        read_serve(alloc, words)
    } else if name == "replay" {
        read_replay(alloc, words)
    } else if name == "check" {
        read_check(alloc, words)
    } else if name == "charges" {
        read_charges(alloc, words)
    } else if name == "workload" {
        read_workload(alloc, words)
    } else {
        Err(WordsFault::Words)
    }
}

/// The words as texts of characters.
fn texts_of<'a>(alloc: Global, words: &'a [Text]) -> Result<Vec<&'a str>, WordsFault>
    ensures { AreTexts words.now result }
{
    let mut texts = Vec::new(alloc);
    for word in words {
        let Ok(text) = str::from_utf8(word.bytes()) else {
            return Err(WordsFault::Words);
        };
        if texts.push(text).is_err() {
            return Err(WordsFault::NoMemory);
        }
    }
    Ok(texts)
}

/// The command of the words, the command's name first.
fn read_words(alloc: Global, words: &[Text]) -> Result<WantedCommand, WordsFault>
    ensures { ReadsCommand words.now result }
{
    let texts = texts_of(alloc, words)?;
    match texts.as_slice() {
        [name, rest @ ..] => read_rest(alloc, name, rest),
        [] => Err(WordsFault::Words),
    }
}

/// The command of the words, the command's name first; None exactly where they are not of the grammar.
///
/// The commands are `serve CONFIG --token T --turns N`, `replay CONFIG SCRIPT --token T`, `check RECORDS`, `charges CONFIG` and `workload --calls N --salt S`. The words after the
/// command are read from the left: `--name value` or `--name=value` for an option of the command, each exactly once, a separate value not beginning with `-`; `--`, which makes all
/// later words positional; any other word is positional if it is `-` or does not begin with `-`. The positional words are exactly as many as named. T is 16 lower-case hexadecimal
/// digits; turns are 1 to 1,000,000,000, calls 1 to 10,000 and the salt 0 to 4,294,967,295, each in decimal without leading zeros. Each word is UTF-8.
///
/// # Errors
///
/// Out of memory only.
pub fn command(alloc: Global, words: &[Text]) -> Result<Option<WantedCommand>, NoMemory>
    ensures spelled { IfOk result (λ given. IfSome (command_if_any given) (λ wanted. IsCommand wanted words.now)) }
    ensures only { IfOk result (λ given. (wanted : Spelled) → IsCommand wanted words.now → command_if_any given ≡ Some wanted) }
{
    match read_words(alloc, words) {
        Ok(read_command) => Ok(Some(read_command)),
        Err(WordsFault::Words) => Ok(None),
        Err(WordsFault::NoMemory) => Err(NoMemory),
    }
}

/// The same words spell at most one command.
pub fn one_command_at_most()
    ensures alone { (one other : Spelled) (words : List (List ℕ)) → IsCommand one words → IsCommand other words → one ≡ other }
{}
