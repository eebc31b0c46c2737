//! The tables of a record.
ghost use Rattle.std.specs.Prelude.{◌≡◌, IfOk, IfSome, List, ℕ, codes, option_map, true};
ghost use Rattle.toml.specs.Data.{is_before, string};
ghost use Rattle.toml.specs.View.{view, table_view};
ghost use Rattle.mmtel_sheet_grammar.specs.Printable.{IsBar, IsDiversion, IsPrintable};
ghost use Rattle.mmtel_sheets.specs.Printing.{comes_before, diversion_data, bar_data, presentation_data, word_of, restriction_data, waiting_data, part_data, late_tables};
ghost use Rattle.mmtel_sheets.specs.Printing.{version_data, document_of};

use crate::members::{no_keys, with_key};
use crate::rules::rules_value;
use crate::values::{bound_value, rejection_value};
use mmtel_lex::NoMemory;
use mmtel_sheet_grammar::keys::Service;
use mmtel_sheet_values::{BarPart, DiversionPart, Restriction, Sheet};
use std::alloc::Global;
use toml::{Table, Value};

fn diversion_table(alloc: Global, part: &DiversionPart) -> Result<Value, NoMemory>
    requires { IsDiversion part.now }
    ensures { IfOk result (λ v. view v ≡ diversion_data part.now) }
{
    let rules = rules_value(alloc, Service::Diversion, part.rules.items())?;
    let rule = with_key(alloc, "rule", Some(rules), no_keys(alloc))?;
    let seconds = Value::Integer(i64::from(part.no_reply));
    let no_reply = with_key(alloc, "no-reply-time", Some(seconds), rule)?;
    let diverts = Value::Boolean(part.deflection);
    let deflection = with_key(alloc, "deflection", Some(diverts), no_reply)?;
    let bound = with_key(alloc, "bound", bound_value(part.bound), deflection)?;
    let active = with_key(alloc, "active", Some(Value::Boolean(true)), bound)?;
    Ok(Value::Table(active))
}

/// Communication diversion, where the part is present.
pub fn diversion_value(
    alloc: Global,
    part: &Option<DiversionPart>,
) -> Result<Option<Value>, NoMemory>
    requires { IfSome part.now IsDiversion }
    ensures { IfOk result (λ o. option_map view o ≡ part_data diversion_data part.now) }
{
    match part {
        None => Ok(None),
        Some(part) => Ok(Some(diversion_table(alloc, part)?)),
    }
}

fn bar_table(alloc: Global, service: Service, part: &BarPart) -> Result<Value, NoMemory>
    requires { IsBar service part.now }
    ensures { IfOk result (λ v. view v ≡ bar_data service part.now) }
{
    let rules = rules_value(alloc, service, part.rules.items())?;
    let rule = with_key(alloc, "rule", Some(rules), no_keys(alloc))?;
    let refused = rejection_value(service, part.reject_anonymous);
    let rejection = with_key(alloc, "reject-anonymous", refused, rule)?;
    let active = with_key(alloc, "active", Some(Value::Boolean(true)), rejection)?;
    Ok(Value::Table(active))
}

/// Communication barring in one direction, where the part is present.
pub fn bar_value(
    alloc: Global,
    service: Service,
    part: &Option<BarPart>,
) -> Result<Option<Value>, NoMemory>
    requires { IfSome part.now (IsBar service) }
    ensures { IfOk result (λ o. option_map view o ≡ part_data (bar_data service) part.now) }
{
    match part {
        None => Ok(None),
        Some(part) => Ok(Some(bar_table(alloc, service, part)?)),
    }
}

/// The presentation of an identity.
pub fn presentation_value(alloc: Global, active: bool) -> Result<Value, NoMemory>
    ensures { IfOk result (λ v. view v ≡ presentation_data active) }
{
    let table = with_key(
        alloc,
        "active",
        Some(Value::Boolean(active)),
        no_keys(alloc),
    )?;
    Ok(Value::Table(table))
}

fn word_value(alloc: Global, first: &str, second: &str, chosen: bool) -> Result<Value, NoMemory>
    ensures { IfOk result (λ v. view v ≡ string (word_of first.now second.now chosen)) }
{
    let word = if chosen { first } else { second };
    Ok(Value::String(String::from_str(alloc, word)?))
}

/// The restriction of an identity.
pub fn restriction_value(alloc: Global, restriction: Restriction) -> Result<Value, NoMemory>
    ensures { IfOk result (λ v. view v ≡ restriction_data restriction) }
{
    let word = word_value(alloc, "permanent", "temporary", restriction.permanent)?;
    let mode = with_key(alloc, "mode", Some(word), no_keys(alloc))?;
    let word = word_value(
        alloc,
        "presentation-restricted",
        "presentation-not-restricted",
        restriction.by_default,
    )?;
    let behaviour = with_key(alloc, "default-behaviour", Some(word), mode)?;
    let active = with_key(
        alloc,
        "active",
        Some(Value::Boolean(restriction.active)),
        behaviour,
    )?;
    Ok(Value::Table(active))
}

fn waiting_table(alloc: Global, calls: u8) -> Result<Value, NoMemory>
    ensures { IfOk result (λ v. view v ≡ waiting_data calls) }
{
    let number = Value::Integer(i64::from(calls));
    let limit = with_key(alloc, "calls", Some(number), no_keys(alloc))?;
    let active = with_key(alloc, "active", Some(Value::Boolean(true)), limit)?;
    Ok(Value::Table(active))
}

/// Communication waiting, where the part is present.
pub fn waiting_value(alloc: Global, calls: Option<u8>) -> Result<Option<Value>, NoMemory>
    ensures { IfOk result (λ o. option_map view o ≡ part_data waiting_data calls) }
{
    let Some(calls) = calls else {
        return Ok(None);
    };
    Ok(Some(waiting_table(alloc, calls)?))
}

/// The version of the records that are printed.
fn version_value() -> Value
    ensures { view result ≡ version_data }
{
    Value::Integer(2)
}

/// The tables from that of outgoing barring on, and the version.
fn late_tables(alloc: Global, sheet: &Sheet) -> Result<Table, NoMemory>
    requires { IsPrintable sheet.now }
    ensures members { IfOk result (λ t. table_view t ≡ late_tables sheet.now) }
    ensures before { IfOk result (λ t. (k : List ℕ) → comes_before k (codes "outgoing-communication-barring") ≡ true → is_before k (table_view t) ≡ true) }
{
    let version = with_key(alloc, "version", Some(version_value()), no_keys(alloc))?;
    let restricted = restriction_value(alloc, sheet.tir)?;
    let tir = with_key(
        alloc,
        "terminating-identity-presentation-restriction",
        Some(restricted),
        version,
    )?;
    let shown = presentation_value(alloc, sheet.tip)?;
    let tip = with_key(alloc, "terminating-identity-presentation", Some(shown), tir)?;
    let barred = bar_value(alloc, Service::Outgoing, &sheet.outgoing)?;
    let outgoing = with_key(alloc, "outgoing-communication-barring", barred, tip)?;
    Ok(outgoing)
}

/// The document of a sheet.
pub fn sheet_table(alloc: Global, sheet: &Sheet) -> Result<Table, NoMemory>
    requires { IsPrintable sheet.now }
    ensures { IfOk result (λ t. table_view t ≡ document_of sheet.now) }
{
    let late = late_tables(alloc, sheet)?;
    let restricted = restriction_value(alloc, sheet.oir)?;
    let oir = with_key(
        alloc,
        "originating-identity-presentation-restriction",
        Some(restricted),
        late,
    )?;
    let shown = presentation_value(alloc, sheet.oip)?;
    let oip = with_key(alloc, "originating-identity-presentation", Some(shown), oir)?;
    let barred = bar_value(alloc, Service::Incoming, &sheet.incoming)?;
    let incoming = with_key(alloc, "incoming-communication-barring", barred, oip)?;
    let calls = waiting_value(alloc, sheet.waiting)?;
    let waiting = with_key(alloc, "communication-waiting", calls, incoming)?;
    let diverted = diversion_value(alloc, &sheet.diversion)?;
    let diversion = with_key(alloc, "communication-diversion", diverted, waiting)?;
    Ok(diversion)
}
