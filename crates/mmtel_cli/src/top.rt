//! The top-level function.
ghost use Rattle.std.specs.Prelude.{◌≡◌, ◌<◌, ◌≤◌, ◌≢◌, IfSome, Ok, Some};
ghost use Rattle.std.specs.Process.{exit_status};
ghost use Rattle.mmtel_cli.specs.Commands.{replay_args_of};
ghost use Rattle.mmtel_words.specs.CommandLine as line;
ghost use Rattle.mmtel_words.specs.Commands.{command_in};
ghost use Rattle.mmtel_directory.specs.Directory.{directory_of};
ghost use Rattle.mmtel_cli.specs.Due.{due_of_events, due_of_script, files_after_directory, files_after_command, files_after_first_read};
ghost use Rattle.mmtel_cli.specs.ReportsDue.{IsDue, HasReadFiles, CountsFileFaults, IsRead, SparedBy, Spares, CountsLinkFaultsBy, UnboundBy};
ghost use Rattle.mmtel_cli.specs.CommandResults.{ResultOfScript, ResultOfReplay, ResultOfCommand, Prepares, ports};
ghost use Rattle.mmtel_cli.specs.KeeperUse.{IsSpared};
ghost use Rattle.mmtel_cli.specs.Environment.{environment_of};
ghost use Rattle.mmtel_cli.specs.Runs.{CallsFilesFor, CountsAtStatus4, CountsAtStatus5, ProgramRun};
ghost use Rattle.mmtel_cli.specs.Serving.{IsUnbound};
ghost use Rattle.mmtel_environment.specs.FileStore.{with_next_call};
ghost use Rattle.mmtel_reports.specs.WriteEffects.{write_effect};
ghost use Rattle.mmtel_run_theorems.specs.Mailboxes.{SubscribersAreNotified};
ghost use Rattle.mmtel_run_theorems.specs.ShortSessions.{ShortSessionsAreRefused};
ghost use Rattle.mmtel_script.specs.Script.{initial_input};
ghost use Rattle.mmtel_server.specs.States.{keeper_state};

use crate::charges::over_charges;
use crate::checks::over_records;
use crate::runs::list_run;
use crate::serving::over_serve;
use crate::workloads::over_workload;
use mmtel_base::{NoMemory, Text};
use mmtel_directory::{Directory, DirectoryFault, read_directory};
use mmtel_environment::{FileFault, Files, Sink};
use mmtel_keeper::{KeepFault, Keeper};
use mmtel_link::Link;
use mmtel_reports::{Report, write_report};
use mmtel_run_theorems::{
    bytes_are_seen, calls_of_runs_reach_outcome, configurations_are_read, homes_have_no_injection,
    run_participants_charged_once, runs_send_no_injection, short_sessions_are_refused,
    subscribers_are_notified,
};
use mmtel_script::{ScriptFault, ScriptLink};
use mmtel_timers::Steps;
use mmtel_words::{Replay, WantedCommand, command};
use std::alloc::Global;
use std::marker::Brand;
use std::process::ExitCode;
use std::sync::ledger::{Blank, Ledger};

/// The report once both files were read and the script is grammatical.
fn over_events<K: Keeper, C: Ledger>(
    alloc: Global,
    directory: Directory,
    token: &[u8],
    script: &mut ScriptLink,
    keeper: &mut K,
    steps: &mut Steps<C>,
) -> Report
    requires bounded { directory.bound ≤ 16 }
    requires no_arrivals { script.old ≡ initial_input script.old.events }
    ensures due { IsDue (keeper_state K.Keeper keeper.old) (keeper_state K.Keeper keeper.new)
        result (due_of_events directory token.now (Ok script.old.events)) }
    ensures read { IsRead result }
    ensures spares { Spares result keeper.old keeper.new }
{
    match list_run(alloc, directory, token, script, keeper, steps) {
        Ok(text) => Report::Listing(text),
        Err(KeepFault::Failed) => Report::Keeper,
        Err(KeepFault::NoMemory) => Report::Memory,
    }
}

/// The report once both files were read.
fn over_script<K: Keeper, C: Ledger>(
    alloc: Global,
    directory: Directory,
    token: &[u8],
    script: &Text,
    keeper: &mut K,
    steps: &mut Steps<C>,
) -> Report
    requires bounded { directory.bound ≤ 16 }
    ensures due { IsDue (keeper_state K.Keeper keeper.old) (keeper_state K.Keeper keeper.new)
        result (due_of_script directory token.now (Some script.now)) }
    ensures read { IsRead result }
    ensures spares { Spares result keeper.old keeper.new }
{
    match ScriptLink::read(alloc, script.bytes(), &directory.peers) {
        Ok(mut script) => {
            let due = over_events(alloc, directory, token, &mut script, keeper, steps);
            drop(script);
            due
        }
        Err(ScriptFault::BadLine { line }) => {
            drop(directory);
            Report::BadLine(line)
        }
        Err(ScriptFault::NoMemory) => {
            drop(directory);
            Report::Memory
        }
    }
}

/// The report once the configuration was read. The next call is for the script.
fn over_directory<F: Files, K: Keeper, C: Ledger>(
    alloc: Global,
    replay: Replay,
    directory: Directory,
    files: &mut F,
    keeper: &mut K,
    steps: &mut Steps<C>,
) -> Report
    requires bounded { directory.bound ≤ 16 }
    ensures gives { ResultOfScript (F.contents files.old) (keeper_state K.Keeper keeper.old) (keeper_state K.Keeper keeper.new)
        (replay_args_of replay) (Ok directory) result }
    ensures calls { IfSome (F.contents files.old) (λ shelf. F.contents files.new ≡ Some (with_next_call shelf)) }
    ensures count { CountsFileFaults result (F.faults files.old) (F.faults files.new) }
    ensures not_usage { result ≢ Report.Usage }
    ensures spares { Spares result keeper.old keeper.new }
{
    match files.read(alloc, replay.script.bytes()) {
        Ok(script) => {
            let due = over_script(
                alloc,
                directory,
                replay.token.bytes(),
                &script,
                keeper,
                steps,
            );
            drop(script);
            drop(replay);
            due
        }
        Err(FileFault::Failed) => {
            drop(directory);
            drop(replay);
            Report::File
        }
        Err(FileFault::NoMemory) => {
            drop(directory);
            drop(replay);
            Report::Memory
        }
    }
}

/// The report once the configuration's text was read. The next call, if any, is for the script.
fn over_config<F: Files, K: Keeper, C: Ledger>(
    alloc: Global,
    replay: Replay,
    config: &Text,
    files: &mut F,
    keeper: &mut K,
    steps: &mut Steps<C>,
) -> Report
    ensures gives { ResultOfScript (F.contents files.old) (keeper_state K.Keeper keeper.old) (keeper_state K.Keeper keeper.new)
        (replay_args_of replay) (directory_of config.now) result }
    ensures calls { IfSome (F.contents files.old)
        (λ shelf. HasReadFiles result (F.contents files.new) shelf (files_after_directory shelf (directory_of config.now))) }
    ensures count { CountsFileFaults result (F.faults files.old) (F.faults files.new) }
    ensures not_usage { result ≢ Report.Usage }
    ensures spares { Spares result keeper.old keeper.new }
{
    match read_directory(alloc, config.bytes()) {
        Ok(directory) => over_directory(alloc, replay, directory, files, keeper, steps),
        Err(DirectoryFault::BadLine { line }) => {
            drop(replay);
            Report::BadLine(line)
        }
        Err(DirectoryFault::NoMemory) => {
            drop(replay);
            Report::Memory
        }
    }
}

/// The report over the files of a `replay`. The next call is for the configuration.
fn over_replay<F: Files, K: Keeper, C: Ledger>(
    alloc: Global,
    replay: Replay,
    files: &mut F,
    keeper: &mut K,
    steps: &mut Steps<C>,
) -> Report
    ensures gives { ResultOfReplay (F.contents files.old) (keeper_state K.Keeper keeper.old) (keeper_state K.Keeper keeper.new)
        (replay_args_of replay) result }
    ensures calls { IfSome (F.contents files.old)
        (λ shelf. HasReadFiles result (F.contents files.new) (with_next_call shelf) (files_after_command shelf (line.Replay (replay_args_of replay)))) }
    ensures count { CountsFileFaults result (F.faults files.old) (F.faults files.new) }
    ensures not_usage { result ≢ Report.Usage }
    ensures spares { Spares result keeper.old keeper.new }
{
    match files.read(alloc, replay.config.bytes()) {
        Ok(config) => {
            let due = over_config(alloc, replay, &config, files, keeper, steps);
            drop(config);
            due
        }
        Err(FileFault::Failed) => {
            drop(replay);
            Report::File
        }
        Err(FileFault::NoMemory) => {
            drop(replay);
            Report::Memory
        }
    }
}

/// The report of this command, over these files, this link and this keeper.
fn over_command<F: Files, L: Link, K: Keeper, C: Ledger>(
    alloc: Global,
    command: WantedCommand,
    files: &mut F,
    link: &mut L,
    keeper: &mut K,
    steps: &mut Steps<C>,
) -> Report
    ensures gives { ResultOfCommand (F.contents files.old)
        (environment_of L.Link link.old K.Keeper keeper.old) (environment_of L.Link link.new K.Keeper keeper.new)
        (command_in command) result }
    ensures calls { IfSome (F.contents files.old) (λ shelf. HasReadFiles result (F.contents files.new)
        (files_after_first_read shelf (command_in command)) (files_after_command shelf (command_in command))) }
    ensures count { CountsFileFaults result (F.faults files.old) (F.faults files.new) }
    ensures not_usage { result ≢ Report.Usage }
    ensures spares { Spares result keeper.old keeper.new }
    ensures spared { SparedBy (Some (command_in command)) keeper.old keeper.new }
    ensures unbound { UnboundBy (Some (command_in command)) result link.old link.new }
    ensures arrival_faults { CountsLinkFaultsBy (Some (command_in command)) result (L.arrival_faults link.old) (L.arrival_faults link.new) }
{
    match command {
        WantedCommand::Replay(replay) => over_replay(alloc, replay, files, keeper, steps),
        WantedCommand::Check(records) => over_records(alloc, records.bytes(), files),
        WantedCommand::Charges(config) => over_charges(alloc, config.bytes(), files, keeper),
        WantedCommand::Workload { calls, salt } => over_workload(alloc, calls, salt, steps),
        WantedCommand::Serve(args) => over_serve(alloc, args, files, link, keeper, steps),
    }
}

/// The report of the command of these arguments, over these files, this link and this keeper; the counter of steps starts at 0 here.
fn prepare<F: Files, L: Link, K: Keeper, C: Ledger>(
    alloc: Global,
    words: &[Text],
    files: &mut F,
    link: &mut L,
    keeper: &mut K,
    blank: Blank,
) -> Report
    requires name { blank.name ≡ C.name }
    requires parts { blank.parts ≡ C.parts }
    requires some { 0 < C.parts }
    ensures prepares { Prepares words.now
        (environment_of L.Link link.old K.Keeper keeper.old) (environment_of L.Link link.new K.Keeper keeper.new)
        (ports (F.contents files.old) link.old keeper.old) (ports (F.contents files.new) link.new keeper.new) result }
    ensures count { CountsFileFaults result (F.faults files.old) (F.faults files.new) }
    ensures spares { Spares result keeper.old keeper.new }
{
    let mut steps: Steps<C> = Steps::new(blank);
    match command(alloc, words) {
        Ok(Some(command_read)) => over_command(
            alloc,
            command_read,
            files,
            link,
            keeper,
            &mut steps,
        ),
        Ok(None) => Report::Usage,
        Err(NoMemory) => Report::Memory,
    }
}

/// Runs the command of these arguments over these files, this link and this keeper, writes its report to the sink, and returns the status.
///
/// `words` are the arguments after the program's own name. There are five commands. `serve CONFIG --token T --turns N` reads the configuration once, binds the keeper to its store,
/// has it replace its records of the first version by records of the second, and loads it, each once, binds the link to its addresses, and then receives from the link, in at most
/// N turns, and passes the server's outputs to it; records that are uploaded are stored by the keeper, and the CDRs of calls and conferences are handed to it; it
/// writes nothing. `replay CONFIG SCRIPT --token T` reads the configuration and then the script, each once, binds the keeper to the store of the configuration, has its old
/// records replaced so and loads it, each once, and writes the listing of the server's outputs in the script's run, with records and CDRs as above. `check RECORDS` reads
/// that file once, and writes `ok` where it is a service record, and else the line of its first fault. `charges CONFIG` reads the configuration once, binds the keeper
/// to its store and reads its CDRs, each once, and writes them as comma-separated values with a header line. `workload --calls N --salt S` makes N calls by a rule over a
/// link and a keeper in memory, and writes their number, the number of the server's outputs, and how many CDRs the keeper holds and how many of them are of a diversion. The
/// status is 0 where the turns were done or the link was closed, or the listing, `ok`, the CDRs or the numbers were written whole, 1 where the arguments are not of the grammar
/// (`usage`), 2 where the configuration, or else the script, is not of its grammar (`line N`), 3 where the file that is checked is no service record (`not toml`, `unknown KEY`,
/// `wrong KEY` or `many KEY LIMIT`), 4 where the link cannot be bound, or failed to receive the next event (`link`), 5 where the configuration, or else the script, or the file
/// that is checked cannot be read (`file`), 6 where the keeper cannot be bound, or cannot replace its old records, be loaded or read its CDRs (`keeper`), 7 where the
/// sink failed before that was whole, and 8 where memory ran out (`memory`).
pub fn run<F: Files, L: Link, K: Keeper, S: Sink>(
    alloc: Global,
    words: &[Text],
    files: &mut F,
    link: &mut L,
    keeper: &mut K,
    out: &mut S,
) -> u8
    // The report and the status: by the arguments and their grammar, by which they are one command at most, and by the results of the files. Of `serve` and `replay`: the link
    // got, or the listing has, exactly the outputs that the definitions of the run give over the records that the keeper returned, which are what it held with each record of the
    // first version replaced by an equivalent one of the second; noninterference holds for them, with what the keeper holds then, the CDRs of the calls and of the
    // participants of conferences, and the outcome of each call; or the keeper could not be bound to the store of the configuration, replace its old records
    // or be loaded; or the link could not be bound or failed to receive. Of the others: whether a text that was checked is a record; the text of exactly the CDRs
    // that the keeper returned, or that it could not be bound or read; the numbers for exactly the outputs of a server for so many calls by the salt, whose messages are determined
    // by these two. Or it is the text of another status; and where memory ran out, what had been done by then: of the last event a prefix at most.
    ensures ran { ProgramRun (F.contents files.old)
        (environment_of L.Link link.old K.Keeper keeper.old) (environment_of L.Link link.new K.Keeper keeper.new)
        words.now (write_effect S.Sink result out.old out.new) }
    // By those definitions the server itself sends a 422 to an INVITE or UPDATE whose session is too short, and to nothing else, and that request has no other effect.
    ensures sessions { ShortSessionsAreRefused }
    // By those definitions each request of the server's own is of a call, of a conference, or a NOTIFY to the trusted peer of a live subscription, with the summary of
    // the last accepted upload of its mailbox; and a SUBSCRIBE of a peer that is not trusted is refused.
    ensures mailboxes { SubscribersAreNotified }
    // Which calls of the files were made.
    ensures calls { IfSome (F.contents files.old) (λ shelf. CallsFilesFor shelf words.now result (F.contents files.new)) }
    // When the count of the files' faults rose.
    ensures files { CountsAtStatus5 result (F.faults files.old) (F.faults files.new) }
    // When the keeper was not called.
    ensures keeper { IsSpared words.now result keeper.old keeper.new }
    // When the link was not called.
    ensures link { IsUnbound words.now result link.old link.new }
    // When the count of the link's arrival faults rose.
    ensures arrival_faults { CountsAtStatus4 result (L.arrival_faults link.old) (L.arrival_faults link.new) }
{
    calls_of_runs_reach_outcome();
    run_participants_charged_once();
    runs_send_no_injection();
    homes_have_no_injection();
    configurations_are_read();
    bytes_are_seen();
    short_sessions_are_refused();
    subscribers_are_notified();
    let due = prepare::<F, L, K, Brand>(alloc, words, files, link, keeper, Blank::new(1));
    let status = write_report(&due, out);
    drop(due);
    status
}

/// The program: `run`, and a process that ends with its status.
pub fn program<F: Files, L: Link, K: Keeper, S: Sink>(
    alloc: Global,
    words: &[Text],
    files: &mut F,
    link: &mut L,
    keeper: &mut K,
    out: &mut S,
) -> ExitCode
    // The same for the status that the process exits with.
    ensures ran { ProgramRun (F.contents files.old)
        (environment_of L.Link link.old K.Keeper keeper.old) (environment_of L.Link link.new K.Keeper keeper.new)
        words.now (write_effect S.Sink (exit_status result) out.old out.new) }
    ensures calls { IfSome (F.contents files.old)
        (λ shelf. CallsFilesFor shelf words.now (exit_status result) (F.contents files.new)) }
    ensures files { CountsAtStatus5 (exit_status result) (F.faults files.old) (F.faults files.new) }
    ensures keeper { IsSpared words.now (exit_status result) keeper.old keeper.new }
    ensures link { IsUnbound words.now (exit_status result) link.old link.new }
    ensures arrival_faults { CountsAtStatus4 (exit_status result) (L.arrival_faults link.old) (L.arrival_faults link.new) }
{
    ExitCode::from(run(alloc, words, files, link, keeper, out))
}
