//! Serving a network: a run over a link and a keeper.
ghost use Rattle.std.specs.Prelude.{◌≡◌, ◌≤◌, ◌≢◌, ℕ, List, [], IfSome, OnErr, OnOk, Some};
ghost use Rattle.mmtel_cli.specs.ReportsDue.{CountsFileFaults, CountsLinkFaults, IsRead, IsServedBy, IsServing, Spares, SparesLink};
ghost use Rattle.mmtel_cli.specs.CommandResults.{ResultOfServe, ServesConfig};
ghost use Rattle.mmtel_cli.specs.KeeperUse.{IsLoaded};
ghost use Rattle.mmtel_cli.specs.Environment.{Environment, environment_of};
ghost use Rattle.mmtel_cli.specs.Serving.{IsLinked, IsNotLinked};
ghost use Rattle.mmtel_directory.specs.declared.directories.Directory.{Directory};
ghost use Rattle.mmtel_records_in_force.specs.Texts.{Texts};
ghost use Rattle.mmtel_environment.specs.FileStore.{with_next_call};
ghost use Rattle.mmtel_server.specs.States.{KeeperState, keeper_state, link_state};
ghost use Rattle.mmtel_server.specs.Representation.{RepresentsRun};

use crate::runs::open_keeper;
use mmtel_base::{NoMemory, Text};
use mmtel_directory::{Directory, DirectoryFault, read_directory};
use mmtel_environment::{FileFault, Files};
use mmtel_keeper::{KeepFault, Keeper};
use mmtel_link::Link;
use mmtel_reports::Report;
use mmtel_serve::serve;
use mmtel_server::{DriveFault, Server};
use mmtel_timers::Steps;
use mmtel_types::{Account, Failed};
use mmtel_words::Serve;
use std::alloc::Global;
use std::sync::ledger::Ledger;

/// Binds a link to the addresses of the configuration: the one for datagrams and the one for web connections.
fn listen<L: Link>(directory: &Directory, link: &mut L) -> Result<(), Failed>
    ensures linked { OnOk result (IsLinked directory.now (link_state L.Link link.old) (link_state L.Link link.new)) }
    ensures failed { OnErr result (IsNotLinked directory.now (link_state L.Link link.old) (link_state L.Link link.new)) }
{
    link.bind(directory.sip.addr(), directory.web)
}

/// The report once so many turns were done, the link was closed, or a turn failed: for a server of this configuration that was just made, over a link that was bound and a keeper
/// that was loaded.
fn over_server<L: Link, K: Keeper, C: Ledger>(
    alloc: Global,
    server: &mut Server,
    turns: u64,
    link: &mut L,
    keeper: &mut K,
    steps: &mut Steps<C>,
) -> Report
    ensures served { (directory : Directory) (token : List ℕ) (loaded : Texts) (start : Environment) →
        RepresentsRun directory token loaded [] server.old → IsLinked directory start.link (link_state L.Link link.old) →
        IsLoaded directory.store loaded start.keeper (keeper_state K.Keeper keeper.old) →
        IsServedBy directory token turns start (environment_of L.Link link.new K.Keeper keeper.new) result }
    ensures serving { IsServing result }
    ensures arrival_faults { CountsLinkFaults result (L.arrival_faults link.old) (L.arrival_faults link.new) }
{
    match serve(alloc, server, link, keeper, turns, steps) {
        Ok(_) => Report::Served,
        Err(DriveFault::LinkFault) => Report::Link,
        Err(DriveFault::NoMemory) => Report::Memory,
    }
}

/// The report once the link was bound: a server of the configuration serves it.
fn over_link<L: Link, K: Keeper, C: Ledger>(
    alloc: Global,
    directory: Directory,
    command: Serve,
    loaded: &[(Account, Text)],
    link: &mut L,
    keeper: &mut K,
    steps: &mut Steps<C>,
) -> Report
    requires bounded { directory.bound ≤ 16 }
    ensures served { (start : Environment) → IsLinked directory start.link (link_state L.Link link.old) →
        IsLoaded directory.store loaded.now start.keeper (keeper_state K.Keeper keeper.old) →
        IsServedBy directory command.token command.turns start (environment_of L.Link link.new K.Keeper keeper.new) result }
    ensures serving { IsServing result }
    ensures arrival_faults { CountsLinkFaults result (L.arrival_faults link.old) (L.arrival_faults link.new) }
{
    let Serve {
        config,
        token,
        turns,
    } = command;
    drop(config);
    match Server::new(alloc, directory, token, loaded) {
        Ok(mut server) => {
            let due = over_server(alloc, &mut server, turns, link, keeper, steps);
            server.give_up();
            due
        }
        Err(NoMemory) => Report::Memory,
    }
}

/// The report once the keeper was loaded: the link is bound to the addresses of the configuration.
fn over_loaded<L: Link, K: Keeper, C: Ledger>(
    alloc: Global,
    directory: Directory,
    command: Serve,
    loaded: &[(Account, Text)],
    link: &mut L,
    keeper: &mut K,
    steps: &mut Steps<C>,
) -> Report
    requires bounded { directory.bound ≤ 16 }
    ensures served { (kept : KeeperState) →
        IsLoaded directory.store loaded.now kept (keeper_state K.Keeper keeper.old) →
        IsServedBy directory command.token command.turns (record { link = link_state L.Link link.old; keeper = kept })
        (environment_of L.Link link.new K.Keeper keeper.new) result }
    ensures serving { IsServing result }
    ensures arrival_faults { CountsLinkFaults result (L.arrival_faults link.old) (L.arrival_faults link.new) }
{
    match listen(&directory, link) {
        Ok(()) => over_link(alloc, directory, command, loaded, link, keeper, steps),
        Err(Failed) => {
            drop(directory);
            drop(command);
            Report::Link
        }
    }
}

/// The report once the configuration was read: the keeper is bound to its store, migrated and loaded, the link is bound to its addresses, and then the turns are done.
fn over_directory<L: Link, K: Keeper, C: Ledger>(
    alloc: Global,
    directory: Directory,
    command: Serve,
    link: &mut L,
    keeper: &mut K,
    steps: &mut Steps<C>,
) -> Report
    requires bounded { directory.bound ≤ 16 }
    ensures served { IsServedBy directory command.token command.turns
        (environment_of L.Link link.old K.Keeper keeper.old) (environment_of L.Link link.new K.Keeper keeper.new) result }
    ensures read { IsRead result }
    ensures spares { Spares result keeper.old keeper.new }
    ensures spares_link { SparesLink result link.old link.new }
    ensures arrival_faults { CountsLinkFaults result (L.arrival_faults link.old) (L.arrival_faults link.new) }
{
    match open_keeper(alloc, keeper, directory.store.bytes()) {
        Ok(loaded) => {
            let due = over_loaded(
                alloc,
                directory,
                command,
                loaded.items(),
                link,
                keeper,
                steps,
            );
            drop(loaded);
            due
        }
        Err(KeepFault::Failed) => {
            drop(directory);
            drop(command);
            Report::Keeper
        }
        Err(KeepFault::NoMemory) => {
            drop(directory);
            drop(command);
            Report::Memory
        }
    }
}

/// The report once the configuration's text was read.
fn over_config<L: Link, K: Keeper, C: Ledger>(
    alloc: Global,
    command: Serve,
    config: &Text,
    link: &mut L,
    keeper: &mut K,
    steps: &mut Steps<C>,
) -> Report
    ensures due { ServesConfig (Some config.now) command.token command.turns
        (environment_of L.Link link.old K.Keeper keeper.old) (environment_of L.Link link.new K.Keeper keeper.new) result }
    ensures read { IsRead result }
    ensures spares { Spares result keeper.old keeper.new }
    ensures spares_link { SparesLink result link.old link.new }
    ensures arrival_faults { CountsLinkFaults result (L.arrival_faults link.old) (L.arrival_faults link.new) }
{
    match read_directory(alloc, config.bytes()) {
        Ok(directory) => over_directory(alloc, directory, command, link, keeper, steps),
        Err(DirectoryFault::BadLine { line }) => {
            drop(command);
            Report::BadLine(line)
        }
        Err(DirectoryFault::NoMemory) => {
            drop(command);
            Report::Memory
        }
    }
}

/// The report of `serve`. The next call of the files is for the configuration.
pub fn over_serve<F: Files, L: Link, K: Keeper, C: Ledger>(
    alloc: Global,
    command: Serve,
    files: &mut F,
    link: &mut L,
    keeper: &mut K,
    steps: &mut Steps<C>,
) -> Report
    ensures gives { ResultOfServe (F.contents files.old)
        (environment_of L.Link link.old K.Keeper keeper.old) (environment_of L.Link link.new K.Keeper keeper.new)
        command.config command.token command.turns result }
    ensures calls { IfSome (F.contents files.old) (λ shelf. F.contents files.new ≡ Some (with_next_call shelf)) }
    ensures count { CountsFileFaults result (F.faults files.old) (F.faults files.new) }
    ensures not_usage { result ≢ Report.Usage }
    ensures spares { Spares result keeper.old keeper.new }
    ensures spares_link { SparesLink result link.old link.new }
    ensures arrival_faults { CountsLinkFaults result (L.arrival_faults link.old) (L.arrival_faults link.new) }
{
    match files.read(alloc, command.config.bytes()) {
        Ok(config) => {
            let due = over_config(alloc, command, &config, link, keeper, steps);
            drop(config);
            due
        }
        Err(FileFault::Failed) => {
            drop(command);
            Report::File
        }
        Err(FileFault::NoMemory) => {
            drop(command);
            Report::Memory
        }
    }
}
