//! Reading the counts of a mailbox.
ghost use Rattle.std.specs.Prelude.{Err, IsErr};
ghost use Rattle.toml.specs.View.{view, table_view};
ghost use Rattle.mmtel_sheet_grammar.specs.ReadResults.{IsReadResult};
ghost use Rattle.mmtel_sheet_grammar.specs.Elements.{number_at};
ghost use Rattle.mmtel_sheet_grammar.specs.declared.faults.SheetFault.TheVariants as fault;
ghost use Rattle.mmtel_mwi.specs.Counting.{ReportsCounts, counts_after_key, counts_of, counts_read};

use crate::counts::Counts;
use mmtel_lex::Text;
use mmtel_sheet_grammar::SheetFault;
use std::alloc::Global;
use toml::{Table, Value};

/// The largest count of a mailbox.
const MAX_COUNT: u32 = 999_999_999;

/// The value at the key is refused as wrong.
fn wrong(alloc: Global, key: &str) -> Result<u32, SheetFault>
    ensures fault { IsReadResult (Err (fault.Wrong key.now)) result }
    ensures refused { IsErr result }
{
    match Text::of(alloc, key.as_bytes()) {
        Ok(key) => Err(SheetFault::Wrong { key }),
        Err(_) => Err(SheetFault::NoMemory),
    }
}

/// The key is refused as not listed.
fn unknown(alloc: Global, key: &str) -> Result<Counts, SheetFault>
    ensures fault { IsReadResult (Err (fault.Unknown key.now)) result }
    ensures refused { IsErr result }
{
    match Text::of(alloc, key.as_bytes()) {
        Ok(key) => Err(SheetFault::Unknown { key }),
        Err(_) => Err(SheetFault::NoMemory),
    }
}

/// A number of messages, up to a maximum.
fn count(alloc: Global, key: &str, value: &Value, max: u32) -> Result<u32, SheetFault>
    ensures { IsReadResult (number_at 0 max key.now (view value.now)) result }
{
    let Value::Integer(number) = value else {
        return wrong(alloc, key);
    };
    let number = *number;
    if 0 <= number && number <= i64::from(max) {
        Ok(number as u32)
    } else {
        wrong(alloc, key)
    }
}

/// The counts after one more key was read.
fn with_key(alloc: Global, counts: Counts, key: &str, value: &Value) -> Result<Counts, SheetFault>
    ensures exact { IsReadResult (counts_after_key key.now counts (view value.now)) result }
{
    if key == "new" {
        let fresh = count(alloc, key, value, MAX_COUNT)?;
        Ok(Counts { fresh, ..counts })
    } else if key == "old" {
        let old = count(alloc, key, value, MAX_COUNT)?;
        Ok(Counts { old, ..counts })
    } else if key == "urgent-new" {
        let urgent_fresh = count(alloc, key, value, counts.fresh)?;
        Ok(Counts {
            urgent_fresh,
            ..counts
        })
    } else if key == "urgent-old" {
        let urgent_old = count(alloc, key, value, counts.old)?;
        Ok(Counts {
            urgent_old,
            ..counts
        })
    } else {
        unknown(alloc, key)
    }
}

/// The counts of a document.
fn counts(alloc: Global, table: &Table) -> Result<Counts, SheetFault>
    ensures exact { IsReadResult (counts_of (table_view table.now)) result }
{
    let mut counts = Counts::none();
    'members: for (key, value) in table.iter() {
        counts = with_key(alloc, counts, key.as_str(), value)?;
    }
    Ok(counts)
}

/// Reads the counts of a mailbox: a TOML document with the keys `new`, `old`, `urgent-new` and `urgent-old`, each a number of messages from 0 to 999,999,999, and 0 where it is
/// absent; an urgent count is at most the count that it is a part of.
///
/// # Errors
///
/// `NotToml` exactly where the bytes are not UTF-8 or not TOML. Else the first fault of the keys, in byte order: `Unknown` where a key is none of these, `Wrong` where its value
/// is no such number. `NoMemory` where memory ran out.
#[tactic(auto, using(crate::proofs::Reports::reported_counts, crate::proofs::Reports::reported_not_toml))]
pub fn read_counts(alloc: Global, bytes: &[u8]) -> Result<Counts, SheetFault>
    ensures exact { ReportsCounts (counts_read bytes.now) result }
{
    match toml::table_from_slice(alloc, bytes) {
        Ok(table) => counts(alloc, &table),
        Err(error) => match error.span() {
            Some(_) => Err(SheetFault::NotToml),
            None => Err(SheetFault::NoMemory),
        },
    }
}
