//! The tables of a record.
ghost use Rattle.std.specs.Prelude.{◌≡◌, codes, Ok, IfOk};
ghost use Rattle.toml.specs.View.{view, table_view};
ghost use Rattle.mmtel_sheet_grammar.specs.ReadResults.{IsReadResult, then_read};
ghost use Rattle.mmtel_sheet_grammar.specs.Elements.{number_at};
ghost use Rattle.mmtel_sheet_grammar.specs.Sound.{IsSound, IsSoundTable};
ghost use Rattle.mmtel_sheet_grammar.specs.Walk.{schema, is_bound, diversion_key, diversion_part, diversion_of, is_rejection, bar_key, bar_part, bar_of, presentation_key};
ghost use Rattle.mmtel_sheet_grammar.specs.Walk.{presentation_of, version_at, version_of, name_read};
ghost use Rattle.mmtel_sheet_grammar.specs.Walk.{choice, choice_at, restriction_key, restriction_of, waiting_key, waiting_part, waiting_of, table_key_of, table_read};
ghost use Rattle.mmtel_sheet_grammar.specs.Walk.{named_read, sheet_from, sheet_of};
ghost use Rattle.mmtel_sheet_values.specs.Sheets.{empty_sheet};

use crate::elements::{number, truth};
use crate::faults::{unknown, wrong};
use crate::keys::dotted_path;
use crate::rules::rules;
use mmtel_lex::List;
use mmtel_sheet_grammar::SheetFault;
use mmtel_sheet_grammar::drafts::{BarDraft, DiversionDraft, WaitingDraft};
use mmtel_sheet_grammar::keys::{Schema, Service, TableKey, Version};
use mmtel_sheet_values::{BarPart, DiversionPart, Restriction, Sheet};
use std::alloc::Global;
use std::mem;
use toml::{Table, Value};

/// The table of this name, if a record has one.
#[tactic(auto, unfolding(mmtel_sheet_grammar::specs::Walk::table_key_of))]
fn table_key(name: &str) -> Option<TableKey>
    ensures { result ≡ table_key_of name.now }
{
    match name {
        "communication-diversion" => Some(TableKey::Diversion),
        "communication-waiting" => Some(TableKey::Waiting),
        "incoming-communication-barring" => Some(TableKey::Incoming),
        "originating-identity-presentation" => Some(TableKey::Oip),
        "originating-identity-presentation-restriction" => Some(TableKey::Oir),
        "outgoing-communication-barring" => Some(TableKey::Outgoing),
        "terminating-identity-presentation" => Some(TableKey::Tip),
        "terminating-identity-presentation-restriction" => Some(TableKey::Tir),
        _ => None,
    }
}

/// The rules of a service, in a version of records.
fn schema(version: Version, service: Service) -> Schema
    ensures { result ≡ schema version service }
{
    Schema { service, version }
}

fn is_bound(version: Version, name: &str) -> bool
    ensures { result ≡ is_bound version name.now }
{
    match version {
        Version::One => false,
        Version::Two => name == "bound",
    }
}

/// The bound of the diversions of a call.
fn read_bound(
    alloc: Global,
    at: &[u8],
    draft: &mut DiversionDraft,
    value: &Value,
) -> Result<(), SheetFault>
    ensures exact { IsReadResult (then_read (number_at 0 16 at.now (view value.now)) (λ n. Ok (record draft.old { bound = Some n }))) (then_read result (λ _. Ok draft.new)) }
    ensures sound { IfOk result (λ _. IsSound (view value.now)) }
{
    let bound = number(alloc, at, value, 0, 16)? as u8;
    draft.bound = Some(bound);
    Ok(())
}

fn read_diversion_key(
    alloc: Global,
    version: Version,
    at: &[u8],
    draft: &mut DiversionDraft,
    name: &str,
    value: &Value,
) -> Result<(), SheetFault>
    ensures exact { IsReadResult (diversion_key version at.now draft.old name.now (view value.now)) (then_read result (λ _. Ok draft.new)) }
    ensures sound { IfOk result (λ _. IsSound (view value.now)) }
{
    if name == "active" {
        draft.active = truth(alloc, at, value)?;
        Ok(())
    } else if is_bound(version, name) {
        read_bound(alloc, at, draft, value)
    } else if name == "deflection" {
        draft.deflection = truth(alloc, at, value)?;
        Ok(())
    } else if name == "no-reply-time" {
        draft.no_reply = number(alloc, at, value, 5, 180)?;
        Ok(())
    } else if name == "rule" {
        let rules = rules(alloc, schema(version, Service::Diversion), at, value)?;
        drop(mem::replace(&mut draft.rules, rules));
        Ok(())
    } else {
        unknown(alloc, at)
    }
}

fn diversion_part(draft: DiversionDraft) -> Option<DiversionPart>
    ensures { result ≡ diversion_part draft }
{
    if draft.active {
        Some(DiversionPart {
            rules: draft.rules,
            no_reply: draft.no_reply,
            deflection: draft.deflection,
            bound: draft.bound,
        })
    } else {
        None
    }
}

fn diversion(
    alloc: Global,
    version: Version,
    path: &[u8],
    table: &Table,
) -> Result<Option<DiversionPart>, SheetFault>
    ensures exact { IsReadResult (diversion_of version path.now (table_view table.now)) result }
    ensures sound { IfOk result (λ _. IsSoundTable (table_view table.now)) }
{
    let mut draft = DiversionDraft {
        active: true,
        bound: None,
        deflection: false,
        no_reply: 20,
        rules: List::new(),
    };
    'members: for (key, value) in table.iter() {
        let at = dotted_path(alloc, path, key.as_bytes())?;
        read_diversion_key(alloc, version, at.bytes(), &mut draft, key.as_str(), value)?;
    }
    Ok(diversion_part(draft))
}

fn is_rejection(service: Service, name: &str) -> bool
    ensures { result ≡ is_rejection service name.now }
{
    match service {
        Service::Incoming => name == "reject-anonymous",
        Service::Diversion | Service::Outgoing => false,
    }
}

fn read_bar_key(
    alloc: Global,
    schema: Schema,
    at: &[u8],
    draft: &mut BarDraft,
    name: &str,
    value: &Value,
) -> Result<(), SheetFault>
    ensures exact { IsReadResult (bar_key schema at.now draft.old name.now (view value.now)) (then_read result (λ _. Ok draft.new)) }
    ensures sound { IfOk result (λ _. IsSound (view value.now)) }
{
    if name == "active" {
        draft.active = truth(alloc, at, value)?;
        Ok(())
    } else if is_rejection(schema.service, name) {
        draft.reject_anonymous = truth(alloc, at, value)?;
        Ok(())
    } else if name == "rule" {
        let rules = rules(alloc, schema, at, value)?;
        drop(mem::replace(&mut draft.rules, rules));
        Ok(())
    } else {
        unknown(alloc, at)
    }
}

fn bar_part(draft: BarDraft) -> Option<BarPart>
    ensures { result ≡ bar_part draft }
{
    if draft.active {
        Some(BarPart {
            rules: draft.rules,
            reject_anonymous: draft.reject_anonymous,
        })
    } else {
        None
    }
}

fn bar(
    alloc: Global,
    schema: Schema,
    path: &[u8],
    table: &Table,
) -> Result<Option<BarPart>, SheetFault>
    ensures exact { IsReadResult (bar_of schema path.now (table_view table.now)) result }
    ensures sound { IfOk result (λ _. IsSoundTable (table_view table.now)) }
{
    let mut draft = BarDraft {
        active: true,
        reject_anonymous: false,
        rules: List::new(),
    };
    'members: for (key, value) in table.iter() {
        let at = dotted_path(alloc, path, key.as_bytes())?;
        read_bar_key(alloc, schema, at.bytes(), &mut draft, key.as_str(), value)?;
    }
    Ok(bar_part(draft))
}

fn with_presentation_key(
    alloc: Global,
    at: &[u8],
    active: bool,
    name: &str,
    value: &Value,
) -> Result<bool, SheetFault>
    ensures exact { IsReadResult (presentation_key at.now active name.now (view value.now)) result }
    ensures sound { IfOk result (λ _. IsSound (view value.now)) }
{
    if name == "active" {
        truth(alloc, at, value)
    } else {
        unknown(alloc, at)
    }
}

fn presentation(alloc: Global, path: &[u8], table: &Table) -> Result<bool, SheetFault>
    ensures exact { IsReadResult (presentation_of path.now (table_view table.now)) result }
    ensures sound { IfOk result (λ _. IsSoundTable (table_view table.now)) }
{
    let mut active = true;
    'members: for (key, value) in table.iter() {
        let at = dotted_path(alloc, path, key.as_bytes())?;
        active = with_presentation_key(alloc, at.bytes(), active, key.as_str(), value)?;
    }
    Ok(active)
}

fn choice(first: &str, second: &str, text: &str) -> Option<bool>
    ensures { result ≡ choice first.now second.now text.now }
{
    if text == first {
        Some(true)
    } else if text == second {
        Some(false)
    } else {
        None
    }
}

/// One of two words: true for the first.
fn choice_at(
    alloc: Global,
    at: &[u8],
    value: &Value,
    first: &str,
    second: &str,
) -> Result<bool, SheetFault>
    ensures exact { IsReadResult (choice_at first.now second.now at.now (view value.now)) result }
    ensures sound { IfOk result (λ _. IsSound (view value.now)) }
{
    let Value::String(text) = value else {
        return wrong(alloc, at);
    };
    match choice(first, second, text.as_str()) {
        Some(is_first) => Ok(is_first),
        None => wrong(alloc, at),
    }
}

fn with_restriction_key(
    alloc: Global,
    at: &[u8],
    draft: Restriction,
    name: &str,
    value: &Value,
) -> Result<Restriction, SheetFault>
    ensures exact { IsReadResult (restriction_key at.now draft name.now (view value.now)) result }
    ensures sound { IfOk result (λ _. IsSound (view value.now)) }
{
    match name {
        "active" => Ok(Restriction {
            active: truth(alloc, at, value)?,
            ..draft
        }),
        "default-behaviour" => {
            let restricted = "presentation-restricted";
            let shown = "presentation-not-restricted";
            let by_default = choice_at(alloc, at, value, restricted, shown)?;
            Ok(Restriction {
                by_default,
                ..draft
            })
        }
        "mode" => {
            let permanent = choice_at(alloc, at, value, "permanent", "temporary")?;
            Ok(Restriction { permanent, ..draft })
        }
        _ => unknown(alloc, at),
    }
}

fn restriction(alloc: Global, path: &[u8], table: &Table) -> Result<Restriction, SheetFault>
    ensures exact { IsReadResult (restriction_of path.now (table_view table.now)) result }
    ensures sound { IfOk result (λ _. IsSoundTable (table_view table.now)) }
{
    let mut draft = Restriction {
        active: true,
        permanent: false,
        by_default: false,
    };
    'members: for (key, value) in table.iter() {
        let at = dotted_path(alloc, path, key.as_bytes())?;
        draft = with_restriction_key(alloc, at.bytes(), draft, key.as_str(), value)?;
    }
    Ok(draft)
}

fn with_waiting_key(
    alloc: Global,
    at: &[u8],
    draft: WaitingDraft,
    name: &str,
    value: &Value,
) -> Result<WaitingDraft, SheetFault>
    ensures exact { IsReadResult (waiting_key at.now draft name.now (view value.now)) result }
    ensures sound { IfOk result (λ _. IsSound (view value.now)) }
{
    match name {
        "active" => Ok(WaitingDraft {
            active: truth(alloc, at, value)?,
            ..draft
        }),
        "calls" => {
            let calls = number(alloc, at, value, 2, 8)? as u8;
            Ok(WaitingDraft { calls, ..draft })
        }
        _ => unknown(alloc, at),
    }
}

fn waiting_part(draft: WaitingDraft) -> Option<u8>
    ensures { result ≡ waiting_part draft }
{
    if draft.active {
        Some(draft.calls)
    } else {
        None
    }
}

fn waiting(alloc: Global, path: &[u8], table: &Table) -> Result<Option<u8>, SheetFault>
    ensures exact { IsReadResult (waiting_of path.now (table_view table.now)) result }
    ensures sound { IfOk result (λ _. IsSoundTable (table_view table.now)) }
{
    let mut draft = WaitingDraft {
        active: true,
        calls: 2,
    };
    'members: for (key, value) in table.iter() {
        let at = dotted_path(alloc, path, key.as_bytes())?;
        draft = with_waiting_key(alloc, at.bytes(), draft, key.as_str(), value)?;
    }
    Ok(waiting_part(draft))
}

/// The table of a key.
fn read_table(
    alloc: Global,
    version: Version,
    at: &[u8],
    sheet: &mut Sheet,
    key: TableKey,
    table: &Table,
) -> Result<(), SheetFault>
    ensures exact { IsReadResult (table_read version at.now sheet.old key (table_view table.now)) (then_read result (λ _. Ok sheet.new)) }
    ensures sound { IfOk result (λ _. IsSoundTable (table_view table.now)) }
{
    match key {
        TableKey::Diversion => {
            sheet.diversion = diversion(alloc, version, at, table)?;
            Ok(())
        }
        TableKey::Incoming => {
            sheet.incoming = bar(alloc, schema(version, Service::Incoming), at, table)?;
            Ok(())
        }
        TableKey::Outgoing => {
            sheet.outgoing = bar(alloc, schema(version, Service::Outgoing), at, table)?;
            Ok(())
        }
        TableKey::Oip => {
            sheet.oip = presentation(alloc, at, table)?;
            Ok(())
        }
        TableKey::Oir => {
            sheet.oir = restriction(alloc, at, table)?;
            Ok(())
        }
        TableKey::Tip => {
            sheet.tip = presentation(alloc, at, table)?;
            Ok(())
        }
        TableKey::Tir => {
            sheet.tir = restriction(alloc, at, table)?;
            Ok(())
        }
        TableKey::Waiting => {
            sheet.waiting = waiting(alloc, at, table)?;
            Ok(())
        }
    }
}

/// The table of a name, or of a name that no table of a record has.
fn read_named(
    alloc: Global,
    version: Version,
    sheet: &mut Sheet,
    name: &str,
    value: &Value,
) -> Result<(), SheetFault>
    ensures exact { IsReadResult (named_read version name.now sheet.old (table_key_of name.now) (view value.now)) (then_read result (λ _. Ok sheet.new)) }
    ensures sound { IfOk result (λ _. IsSound (view value.now)) }
{
    match table_key(name) {
        Some(key) => match value {
            Value::Table(table) => read_table(alloc, version, name.as_bytes(), sheet, key, table),
            _ => wrong(alloc, name.as_bytes()),
        },
        None => unknown(alloc, name.as_bytes()),
    }
}

/// A version of records.
fn version_at(alloc: Global, at: &[u8], value: &Value) -> Result<Version, SheetFault>
    ensures exact { IsReadResult (version_at at.now (view value.now)) result }
    ensures sound { IfOk result (λ _. IsSound (view value.now)) }
{
    let number = number(alloc, at, value, 1, 2)?;
    Ok(if number == 1 {
        Version::One
    } else {
        Version::Two
    })
}

/// The version of a document, which is looked at before all else.
pub fn version(alloc: Global, table: &Table) -> Result<Version, SheetFault>
    ensures exact { IsReadResult (version_of (table_view table.now)) result }
{
    match table.get("version") {
        None => Ok(Version::One),
        Some(value) => version_at(alloc, b"version", value),
    }
}

/// One more name of the document.
fn read_name(
    alloc: Global,
    version: Version,
    sheet: &mut Sheet,
    name: &str,
    value: &Value,
) -> Result<(), SheetFault>
    ensures exact { IsReadResult (name_read version name.now sheet.old (view value.now)) (then_read result (λ _. Ok sheet.new)) }
    ensures sound { IfOk result (λ _. IsSound (view value.now)) }
{
    if name == "version" {
        version_at(alloc, name.as_bytes(), value)?;
        Ok(())
    } else {
        read_named(alloc, version, sheet, name, value)
    }
}

/// The sheet of a document of this version.
fn sheet_from(alloc: Global, version: Version, table: &Table) -> Result<Sheet, SheetFault>
    ensures exact { IsReadResult (sheet_from version empty_sheet (table_view table.now)) result }
    ensures sound { IfOk result (λ _. IsSoundTable (table_view table.now)) }
{
    let mut sheet = Sheet::empty();
    'members: for (key, value) in table.iter() {
        read_name(alloc, version, &mut sheet, key.as_str(), value)?;
    }
    Ok(sheet)
}

/// The sheet of a document.
pub fn sheet(alloc: Global, table: &Table) -> Result<Sheet, SheetFault>
    ensures exact { IsReadResult (sheet_of (table_view table.now)) result }
    ensures sound { IfOk result (λ _. IsSoundTable (table_view table.now)) }
{
    let version = version(alloc, table)?;
    sheet_from(alloc, version, table)
}
