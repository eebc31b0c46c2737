//! The CDRs that wait.
ghost use Rattle.std.specs.Prelude.{◌≡◌, ◌++◌, ◌∷◌, List, OnOk, length};
ghost use Rattle.mmtel_b2bua.specs.Operations.{Drops, Represents, TableOp, config_of};
ghost use Rattle.mmtel_trust.specs.Peers.{Peers};
ghost use Rattle.mmtel_trust.specs.declared.accounts.AccountIdentity.{AccountIdentity};

use mmtel_b2bua::Calls;
use mmtel_base::{List, NoMemory};
use mmtel_charging::Row;
use std::alloc::Global;

/// Adds CDRs at the end.
///
/// # Errors
///
/// Out of memory only; some of them may have been added then.
pub(super) fn add_rows(alloc: Global, rows: &[Row], waiting: &mut List<Row>) -> Result<(), NoMemory>
    ensures { OnOk result (waiting.new ≡ waiting.old ++ rows.now) }
{
    for row in rows {
        waiting.push(alloc, *row)?;
    }
    Ok(())
}

/// Removes from the calls the CDRs that they closed: these wait with all others.
///
/// # Errors
///
/// Out of memory only.
pub(super) fn collect_rows_of_calls(
    alloc: Global,
    calls: &mut Calls,
    waiting: &mut List<Row>,
) -> Result<(), NoMemory>
    ensures waiting { OnOk result (waiting.new ≡ waiting.old ++ calls.old.table.rows) }
    ensures done { OnOk result ((peers : Peers) (accounts : List AccountIdentity) (ops : List TableOp) →
        Represents peers accounts calls.old ops →
        Represents peers accounts calls.new (Drops (length calls.old.table.rows) ∷ ops)) }
    ensures config { OnOk result ((peers : Peers) (accounts : List AccountIdentity) →
        config_of calls.new peers accounts ≡ config_of calls.old peers accounts) }
{
    add_rows(alloc, calls.rows_waiting(), waiting)?;
    let count = calls.rows_waiting().len();
    calls.drop_rows(count);
    Ok(())
}
