//! Shared sheets.
ghost use Rattle.std.specs.Prelude.{◌≡◌, IfOk};

use crate::values::Sheet;
use mmtel_lex::NoMemory;
use std::alloc::Global;
use std::marker::Model;
use std::rc::Rc;

/// A sheet with several holders: the table of the sheets in force, and each attempt that began under it. It does not change, and exists as long as it has a holder.
///
/// In contracts it is seen as the sheet.
#[derive(Drop)]
pub struct SharedSheet {
    inner: Rc<Sheet>,
}

impl Model for SharedSheet {
    ghost use Rattle.mmtel_sheet_values.specs.contracts.values.Sheet as row;
    ghost use Rattle.mmtel_sheet_values.specs.declared.values.Sheet.{Sheet};

    ghost Value = { Sheet };

    ghost coded = { row.the_row.coded };

    ghost view = { λ s. s.inner.value };
}

impl SharedSheet {
    /// The sheet, with its first holder.
    ///
    /// # Errors
    ///
    /// Out of memory only.
    pub fn new(alloc: Global, sheet: Sheet) -> Result<SharedSheet, NoMemory>
        ensures its { IfOk result (λ s. s ≡ sheet) }
    {
        let kept = Rc::new(alloc, sheet)?;
        Ok(SharedSheet { inner: kept })
    }

    /// The sheet itself. It allocates nothing.
    pub fn sheet(&self) -> &Sheet
        ensures its { result.now ≡ self.now }
    {
        Rc::as_ref(&self.inner)
    }

    /// The same sheet for one more holder. Nothing is copied.
    ///
    /// # Errors
    ///
    /// Out of memory only: the holders can no longer be counted.
    pub fn share(&self) -> Result<SharedSheet, NoMemory>
        ensures same { IfOk result (λ s. s ≡ self.now) }
    {
        let kept = self.inner.clone()?;
        Ok(SharedSheet { inner: kept })
    }
}
