//! Writing the CDRs that a keeper holds.
ghost use Rattle.std.specs.Prelude.{◌≡◌, ◌≢◌, IfOk, IfSome, IsErrOf, Some};
ghost use Rattle.mmtel_cli.specs.Due as due;
ghost use Rattle.mmtel_cli.specs.Due.{due_of_charges};
ghost use Rattle.mmtel_cli.specs.ReportsDue.{CountsFileFaults, IsDue, IsRead, Spares};
ghost use Rattle.mmtel_cli.specs.CommandResults.{ResultOfCharges};
ghost use Rattle.mmtel_cli.specs.KeeperUse.{OnlyReadRows, ReadsNoRows, ReadsRows};
ghost use Rattle.mmtel_cli.specs.Listings.{ListsRows};
ghost use Rattle.mmtel_keeper.specs.declared.keepers.KeepFault.TheVariants as fault;
ghost use Rattle.mmtel_environment.specs.FileStore.{with_next_call};
ghost use Rattle.mmtel_server.specs.States.{keeper_state};

use mmtel_base::{List, Text};
use mmtel_charging::{Row, rows_text};
use mmtel_directory::{DirectoryFault, read_directory};
use mmtel_environment::{FileFault, Files};
use mmtel_keeper::{KeepFault, Keeper};
use mmtel_reports::Report;
use std::alloc::Global;

/// Binds a keeper to the store of that name, and reads the CDRs that it holds there.
fn read_rows<K: Keeper>(alloc: Global, keeper: &mut K, store: &[u8]) -> Result<List<Row>, KeepFault>
    ensures rows { IfOk result (λ rows.
        ReadsRows store.now rows (keeper_state K.Keeper keeper.old) (keeper_state K.Keeper keeper.new)) }
    ensures failed { IsErrOf result fault.Failed →
        ReadsNoRows store.now (keeper_state K.Keeper keeper.old) (keeper_state K.Keeper keeper.new) }
    ensures stopped { IsErrOf result fault.NoMemory →
        OnlyReadRows store.now (keeper_state K.Keeper keeper.old) (keeper_state K.Keeper keeper.new) }
    ensures held { K.contents keeper.new ≡ K.contents keeper.old }
{
    keeper.bind(alloc, store)?;
    keeper.rows(alloc)
}

/// The text of the CDRs that a keeper holds in the store of that name.
fn list_rows<K: Keeper>(alloc: Global, keeper: &mut K, store: &[u8]) -> Result<Text, KeepFault>
    ensures lists { IfOk result (λ text.
        ListsRows store.now (keeper_state K.Keeper keeper.old) (keeper_state K.Keeper keeper.new) text) }
    ensures failed { IsErrOf result fault.Failed →
        ReadsNoRows store.now (keeper_state K.Keeper keeper.old) (keeper_state K.Keeper keeper.new) }
    ensures stopped { IsErrOf result fault.NoMemory →
        OnlyReadRows store.now (keeper_state K.Keeper keeper.old) (keeper_state K.Keeper keeper.new) }
    ensures held { K.contents keeper.new ≡ K.contents keeper.old }
{
    let rows = read_rows(alloc, keeper, store)?;
    let text = rows_text(alloc, rows.items())?;
    Ok(text)
}

/// The report for the store of that name.
fn over_store<K: Keeper>(alloc: Global, keeper: &mut K, store: &[u8]) -> Report
    ensures due { IsDue (keeper_state K.Keeper keeper.old) (keeper_state K.Keeper keeper.new)
        result (due.Rows store.now) }
    ensures held { K.contents keeper.new ≡ K.contents keeper.old }
    ensures read { IsRead result }
    ensures spares { Spares result keeper.old keeper.new }
{
    match list_rows(alloc, keeper, store) {
        Ok(text) => Report::Listing(text),
        Err(KeepFault::Failed) => Report::Keeper,
        Err(KeepFault::NoMemory) => Report::Memory,
    }
}

/// The report once the configuration's text was read.
fn over_text<K: Keeper>(alloc: Global, config: &Text, keeper: &mut K) -> Report
    ensures due { IsDue (keeper_state K.Keeper keeper.old) (keeper_state K.Keeper keeper.new)
        result (due_of_charges (Some config.now)) }
    ensures held { K.contents keeper.new ≡ K.contents keeper.old }
    ensures read { IsRead result }
    ensures spares { Spares result keeper.old keeper.new }
{
    match read_directory(alloc, config.bytes()) {
        Ok(directory) => {
            let due = over_store(alloc, keeper, directory.store.bytes());
            drop(directory);
            due
        }
        Err(DirectoryFault::BadLine { line }) => Report::BadLine(line),
        Err(DirectoryFault::NoMemory) => Report::Memory,
    }
}

/// The report of `charges`. The next call of the files is for the configuration.
pub fn over_charges<F: Files, K: Keeper>(
    alloc: Global,
    config: &[u8],
    files: &mut F,
    keeper: &mut K,
) -> Report
    ensures gives { ResultOfCharges (F.contents files.old) (keeper_state K.Keeper keeper.old) (keeper_state K.Keeper keeper.new)
        config.now result }
    ensures calls { IfSome (F.contents files.old) (λ shelf. F.contents files.new ≡ Some (with_next_call shelf)) }
    ensures count { CountsFileFaults result (F.faults files.old) (F.faults files.new) }
    ensures not_usage { result ≢ Report.Usage }
    ensures spares { Spares result keeper.old keeper.new }
{
    match files.read(alloc, config) {
        Ok(config) => over_text(alloc, &config, keeper),
        Err(FileFault::Failed) => Report::File,
        Err(FileFault::NoMemory) => Report::Memory,
    }
}
