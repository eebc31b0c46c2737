//! Moments in the format of records.
ghost use Rattle.std.specs.Prelude.{◌≡◌};
ghost use Rattle.mmtel_sheet_grammar.specs.Printable.{IsMoment};
ghost use Rattle.mmtel_sheets.specs.Times.{moment_text};

use arrayvec::ArrayString;
use jiff::Timestamp;
use jiff::fmt::temporal::DateTimePrinter;

/// The text of a moment, in milliseconds since 1970-01-01T00:00:00Z: YYYY-MM-DDTHH:MM:SS.mmmZ.
pub fn print_moment(moment: i128) -> ArrayString<33>
    requires { IsMoment moment }
    ensures { result.bytes ≡ moment_text moment }
{
    match Timestamp::from_nanosecond(moment * 1_000_000) {
        Ok(timestamp) => DateTimePrinter::new()
            .precision(Some(3))
            .timestamp_text(timestamp.to_plain()),
        Err(_) => unreachable!(),
    }
}
