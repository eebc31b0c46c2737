//! Rows that are appended to a list, and rows that were handed over.
ghost use Rattle.std.specs.Prelude.{◌≡◌, ◌++◌, ◌≤◌, ◌<◌, drop, length, option_to_list, OnErr, OnOk};

use mmtel_base::{List, NoMemory};
use std::alloc::Global;

/// Appends a row to a list, where there is one: that of a meter that was closed.
///
/// # Errors
///
/// Out of memory only; the list is then as before, and the row is dropped.
pub fn push_some<T: Drop>(alloc: Global, rows: &mut List<T>, row: Option<T>) -> Result<(), NoMemory>
    ensures filed { OnOk result (rows.new ≡ rows.old ++ option_to_list row) }
    ensures refused { OnErr result (rows.new ≡ rows.old) }
{
    match row {
        None => Ok(()),
        Some(row) => {
            rows.push(alloc, row)?;
            Ok(())
        }
    }
}

/// Removes the first row.
fn remove_first<T: Drop>(rows: &mut List<T>)
    requires { 0 < length rows.old }
    ensures { rows.new ≡ drop 1 rows.old }
{
    drop(rows.remove(0));
}

/// Removes so many rows from the front, which were handed over.
#[tactic(auto, using(crate::proofs::Removals::removal_step))]
pub fn drop_first<T: Drop>(rows: &mut List<T>, count: usize)
    requires { count ≤ length rows.old }
    ensures rest { rows.new ≡ drop count rows.old }
{
    for _ in 0..count {
        remove_first(rows);
    }
}
