//! A keeper in memory.
ghost use Rattle.std.specs.Prelude.{◌≡◌, ◌++◌, ◌==◌, ◌<◌, [], length, position, Some, None, IfOk, IfSome, OnOk, OnErr};
ghost use Rattle.mmtel_keeper.specs.Memory.{BeginsCall, AreReplacements, AreInRange, set_all};

use crate::keepers::{KeepFault, Keeper};
use crate::migration::migrated_text;
use mmtel_base::{List, NoMemory, Text};
use mmtel_charging::Row;
use mmtel_environment::fails_by_number;
use mmtel_sheet_texts::SheetTexts;
use mmtel_types::Account;
use std::alloc::Global;
use std::marker::Model;

/// A keeper in memory, whose calls of given numbers fail.
#[derive(Drop)]
pub struct MemoryKeeper {
    sheets: SheetTexts,
    rows: Rows,
    path: Option<Text>,
    failing: List<u64>,
    calls: u64,
    faults: u64,
}

impl Model for MemoryKeeper {
    ghost use Rattle.mmtel_keeper.specs.Memory.{MemoryKeeperView};

    ghost Value = { MemoryKeeperView };

    ghost view = { λ m. record {
      contents = record { sheets = m.sheets.texts; rows = m.rows };
      calls = record { path = m.path; calls = m.calls; failing = m.failing };
      faults = m.faults;
    } };
}

/// Rows in order, seen as a list in contracts.
#[derive(Drop)]
struct Rows {
    list: Option<Vec<Row>>,
}

impl Model for Rows {
    ghost use Rattle.std.specs.Prelude.{List, []};
    ghost use Rattle.std.specs.Option.{option_map_or};
    ghost use Rattle.mmtel_charging.specs.declared.rows.Row.{Row};

    ghost Value = { List Row };

    ghost view = { λ r. option_map_or (λ v. v.items) r.list [] };
}

impl Rows {
    /// Adds rows at the end, all or none.
    fn add(&mut self, alloc: Global, rows: &[Row]) -> Result<(), NoMemory>
        ensures ok { OnOk result (self.new ≡ self.old ++ rows.now) }
        ensures err { OnErr result (self.new ≡ self.old) }
    {
        match &mut self.list {
            Some(kept) => {
                kept.extend_from_slice(rows)?;
                Ok(())
            }
            None => {
                let kept = Vec::from_slice(alloc, rows)?;
                self.list = Some(kept);
                Ok(())
            }
        }
    }

    /// The rows, in order.
    fn items(&self) -> &[Row]
        ensures { result.now ≡ self.now }
    {
        match &self.list {
            Some(kept) => kept.as_slice(),
            None => &[],
        }
    }
}

/// A copy of the sheets.
fn copy_sheets(alloc: Global, sheets: &[(Account, Text)]) -> Result<List<(Account, Text)>, NoMemory>
    ensures copied { IfOk result (λ copied. copied ≡ sheets.now) }
{
    let mut copied = List::new();
    for sheet in sheets {
        let text = Text::of(alloc, sheet.1.bytes())?;
        copied.push(alloc, (sheet.0, text))?;
    }
    Ok(copied)
}

/// A copy of the rows as a list.
fn copy_rows(alloc: Global, rows: &[Row]) -> Result<List<Row>, NoMemory>
    ensures copied { IfOk result (λ copied. copied ≡ rows.now) }
{
    let mut copied = List::new();
    for row in rows {
        copied.push(alloc, *row)?;
    }
    Ok(copied)
}

/// The texts that replace records of the first version, each with its index among the sheets.
fn replacements(alloc: Global, sheets: &[(Account, Text)]) -> Result<List<(usize, Text)>, NoMemory>
    ensures replaced { IfOk result (AreReplacements sheets.now) }
{
    let mut found = List::new();
    let mut at: usize = 0;
    for sheet in sheets {
        if let Some(text) = migrated_text(alloc, sheet.1.bytes())? {
            found.push(alloc, (at, text))?;
        }
        at += 1;
    }
    Ok(found)
}

/// Puts each text at its index. It allocates nothing.
fn put_all(sheets: &mut SheetTexts, new_texts: List<(usize, Text)>)
    requires { AreInRange (length sheets.old.texts) new_texts }
    ensures put { sheets.new.texts ≡ set_all new_texts sheets.old.texts }
{
    let mut new_texts = new_texts;
    'new_texts: while let Some((at, text)) = new_texts.pop() {
        sheets.set(at, text);
    }
}

impl MemoryKeeper {
    /// A keeper of no sheets and no rows. The calls whose numbers, counted from 1, are in `failing` fail.
    pub fn new(failing: List<u64>) -> MemoryKeeper
        ensures fresh { result ≡ record {
          contents = record { sheets = []; rows = [] };
          calls = record { path = None; calls = 0; failing = failing };
          faults = 0;
        } }
    {
        MemoryKeeper {
            sheets: SheetTexts::new(),
            rows: Rows { list: None },
            path: None,
            failing,
            calls: 0,
            faults: 0,
        }
    }

    /// Counts a call, and fails where its number is one of those that fail.
    fn begin(&mut self) -> Result<(), KeepFault>
        ensures begins { BeginsCall self.old self.new result }
    {
        let fails = fails_by_number(self.failing.items(), self.calls);
        self.calls = self.calls.saturating_add(1);
        if fails {
            self.faults = self.faults.saturating_add(1);
            return Err(KeepFault::Failed);
        }
        Ok(())
    }
}

impl Keeper for MemoryKeeper {
    ghost contents = { λ m. Some m.contents };

    ghost calls = { λ m. Some m.calls };

    ghost faults = { λ m. m.faults };

    fn bind(&mut self, alloc: Global, path: &[u8]) -> Result<(), KeepFault> {
        self.begin()?;
        let path = Text::of(alloc, path)?;
        self.path = Some(path);
        Ok(())
    }

    fn migrate(&mut self, alloc: Global) -> Result<u64, KeepFault> {
        self.begin()?;
        let found = replacements(alloc, self.sheets.items())?;
        let count = found.items().len() as u64;
        put_all(&mut self.sheets, found);
        Ok(count)
    }

    fn load(&mut self, alloc: Global) -> Result<List<(Account, Text)>, KeepFault> {
        self.begin()?;
        Ok(copy_sheets(alloc, self.sheets.items())?)
    }

    fn store(&mut self, alloc: Global, account: Account, text: &[u8]) -> Result<(), KeepFault> {
        self.begin()?;
        let text = Text::of(alloc, text)?;
        self.sheets.put(alloc, account, text)?;
        Ok(())
    }

    fn add_rows(&mut self, alloc: Global, rows: &[Row]) -> Result<(), KeepFault> {
        self.begin()?;
        self.rows.add(alloc, rows)?;
        Ok(())
    }

    fn rows(&mut self, alloc: Global) -> Result<List<Row>, KeepFault> {
        self.begin()?;
        Ok(copy_rows(alloc, self.rows.items())?)
    }
}
