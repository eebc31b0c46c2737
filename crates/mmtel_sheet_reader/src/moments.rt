//! Times as records write them.
ghost use Rattle.std.specs.Prelude.{◌≡◌};
ghost use Rattle.mmtel_sheet_grammar.specs.Moments.{moment_of_text};

use jiff::Timestamp;

/// 0001-01-01T00:00:00Z, in milliseconds since 1970.
const FIRST: i128 = -62_135_596_800_000;

/// The whole milliseconds since 1970-01-01T00:00:00Z of a timestamp, rounded down; None where the text is no timestamp with an offset, or one outside of the years 1 to
/// 9999 of UTC.
pub fn read_time(text: &str) -> Option<i128>
    ensures { result ≡ moment_of_text text.now }
{
    let timestamp: Timestamp = match text.parse() {
        Ok(timestamp) => timestamp,
        Err(_) => return None,
    };
    let moment = timestamp.as_nanosecond().div_euclid(1_000_000);
    if moment < FIRST { None } else { Some(moment) }
}
