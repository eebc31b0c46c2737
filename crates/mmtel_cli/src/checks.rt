//! Checking a file: whether it is a service record.
ghost use Rattle.std.specs.Prelude.{◌≡◌, ◌≢◌, IfSome, Some};
ghost use Rattle.mmtel_cli.specs.Due.{due_of_records};
ghost use Rattle.mmtel_cli.specs.ReportsDue.{CountsFileFaults, IsDue, IsRead};
ghost use Rattle.mmtel_cli.specs.CommandResults.{ResultOfCheck};
ghost use Rattle.mmtel_environment.specs.FileStore.{with_next_call};
ghost use Rattle.mmtel_server.specs.States.{KeeperState};

use mmtel_base::{NoMemory, Text};
use mmtel_environment::{FileFault, Files};
use mmtel_reports::Report;
use mmtel_sheet_reader::{Upload, upload_of};
use std::alloc::Global;

/// The report for a text that is checked.
fn over_text(alloc: Global, text: &Text) -> Report
    ensures due { (keeper : KeeperState) → IsDue keeper keeper result (due_of_records (Some text.now)) }
    ensures read { IsRead result }
{
    match upload_of(alloc, text.bytes()) {
        Ok(Upload::Accepted(record)) => {
            drop(record);
            Report::ValidRecord
        }
        Ok(Upload::Refused(line)) => Report::InvalidRecord(line),
        Err(NoMemory) => Report::Memory,
    }
}

/// The report for the file of this name. The next call is for it.
pub fn over_records<F: Files>(alloc: Global, records: &[u8], files: &mut F) -> Report
    ensures gives { ResultOfCheck (F.contents files.old) records.now result }
    ensures calls { IfSome (F.contents files.old) (λ shelf. F.contents files.new ≡ Some (with_next_call shelf)) }
    ensures count { CountsFileFaults result (F.faults files.old) (F.faults files.new) }
    ensures not_usage { result ≢ Report.Usage }
{
    match files.read(alloc, records) {
        Ok(text) => over_text(alloc, &text),
        Err(FileFault::Failed) => Report::File,
        Err(FileFault::NoMemory) => Report::Memory,
    }
}
