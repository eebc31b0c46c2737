//! The report of a run, and how it is written.
ghost use Rattle.std.specs.Prelude.{◌≡◌, OnOk, OnErr, decimal};
ghost use Rattle.std.specs.Io.KnownBytes.{Appends};
ghost use Rattle.mmtel_environment.specs.Counts.{HasCause};
ghost use Rattle.mmtel_reports.specs.WriteEffects.{WritesReport, Wrote, WroteListing, line_text, write_effect};
ghost use Rattle.mmtel_environment.specs.Written.{AppendsPart};

use itoa::Buffer;
use mmtel_base::Text;
use mmtel_environment::{Sink, write_all};
use mmtel_types::Failed;

/// The report of a run, each with its status.
#[derive(Drop)]
pub enum Report {
    /// `usage`, status 1: the words are not of the grammar.
    Usage,
    /// `line N`, status 2: that line is the first that breaks the grammar of its file.
    BadLine(u64),
    /// `link`, status 4: the link could not be bound, or could not receive the next event.
    Link,
    /// `file`, status 5: a file could not be read.
    File,
    /// `keeper`, status 6: the keeper could not be bound, or not be loaded or not return its rows.
    Keeper,
    /// `memory`, status 8: memory ran out.
    Memory,
    /// The listing of the outputs, the charging rows that the keeper holds or the numbers of a workload, status 0; 7 where it is not written whole.
    Listing(Text),
    /// `ok`, status 0, and 7 where it is not written whole: the file is a service record.
    ValidRecord,
    /// Nothing, status 0: the turns of `serve` are used up, or the link is closed.
    Served,
    /// The line with its first fault, status 3: the file is no service record.
    InvalidRecord(Text),
}

/// Writes a number in decimal.
fn write_number<S: Sink>(out: &mut S, number: u64) -> Result<(), Failed>
    ensures whole { OnOk result (Appends (S.written out.old) (S.written out.new) (decimal number)) }
    ensures part { OnErr result (AppendsPart (S.written out.old) (S.written out.new) (decimal number)) }
    ensures cause { HasCause (S.faults out.old) (S.faults out.new) result }
{
    let mut buffer = Buffer::new();
    write_all(out, buffer.format(number).as_bytes())
}

/// Writes `line` and the number, with LF.
fn write_line<S: Sink>(out: &mut S, line: u64) -> Result<(), Failed>
    ensures whole { OnOk result (Appends (S.written out.old) (S.written out.new) (line_text line)) }
    ensures part { OnErr result (AppendsPart (S.written out.old) (S.written out.new) (line_text line)) }
    ensures cause { HasCause (S.faults out.old) (S.faults out.new) result }
{
    write_all(out, b"line ")?;
    write_number(out, line)?;
    write_all(out, b"\n")
}

/// Writes a text, and returns its status, which is the same where the writing fails.
fn report_text<S: Sink>(out: &mut S, text: &[u8], status: u8) -> u8
    ensures wrote { Wrote text.now (write_effect S.Sink result out.old out.new) }
    ensures status { result ≡ status }
{
    let _ = write_all(out, text);
    status
}

/// The same of a line's number.
fn report_line<S: Sink>(out: &mut S, line: u64, status: u8) -> u8
    ensures wrote { Wrote (line_text line) (write_effect S.Sink result out.old out.new) }
    ensures status { result ≡ status }
{
    let _ = write_line(out, line);
    status
}

/// Writes the text of a command that is done, and returns the status.
fn write_whole<S: Sink>(out: &mut S, text: &[u8]) -> u8
    ensures wrote { WroteListing text.now (write_effect S.Sink result out.old out.new) }
{
    match write_all(out, text) {
        Ok(()) => 0,
        Err(Failed) => 7,
    }
}

/// Writes the report, and returns the status. It allocates nothing.
pub fn write_report<S: Sink>(due: &Report, out: &mut S) -> u8
    ensures ends { WritesReport due.now (write_effect S.Sink result out.old out.new) }
{
    match due {
        Report::Usage => report_text(out, b"usage\n", 1),
        Report::BadLine(line) => report_line(out, *line, 2),
        Report::InvalidRecord(line) => report_text(out, line.bytes(), 3),
        Report::Link => report_text(out, b"link\n", 4),
        Report::File => report_text(out, b"file\n", 5),
        Report::Keeper => report_text(out, b"keeper\n", 6),
        Report::Memory => report_text(out, b"memory\n", 8),
        Report::Listing(text) => write_whole(out, text.bytes()),
        Report::ValidRecord => write_whole(out, b"ok\n"),
        Report::Served => 0,
    }
}

/// Reports that memory ran out before the words could be stored, and returns the status of that.
pub fn out_of_memory<S: Sink>(out: &mut S) -> u8
    ensures ends { WritesReport Report.Memory (write_effect S.Sink result out.old out.new) }
{
    write_report(&Report::Memory, out)
}
