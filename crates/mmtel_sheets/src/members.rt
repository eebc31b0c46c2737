//! The table of a document, which is built from its last key to its first.
ghost use Rattle.std.specs.Prelude.{◌≡◌, ℕ, List, true, IfOk, string_bytes, option_map, IsUtf8};
ghost use Rattle.toml.specs.Data.{is_before, member, no_members};
ghost use Rattle.toml.specs.View.{view, table_view};
ghost use Rattle.mmtel_sheets.specs.Printing.{comes_before, with_key};

use mmtel_lex::NoMemory;
use std::alloc::Global;
use toml::{Table, Value};

/// The bytes as a string.
pub fn string_of(alloc: Global, bytes: &[u8]) -> Result<String, NoMemory>
    requires { IsUtf8 bytes.now }
    ensures { IfOk result (λ s. string_bytes s ≡ bytes.now) }
{
    match str::from_utf8(bytes) {
        Ok(text) => Ok(String::from_str(alloc, text)?),
        Err(_) => unreachable!(),
    }
}

/// The table with one more key, which comes before all others.
fn put_first(alloc: Global, key: &str, value: Value, mut rest: Table) -> Result<Table, NoMemory>
    requires { is_before key.now (table_view rest) ≡ true }
    ensures { IfOk result (λ t. table_view t ≡ member key.now (view value) (table_view rest)) }
{
    let name = String::from_str(alloc, key)?;
    rest.insert(name, value)?;
    Ok(rest)
}

/// The table with one more key, where there is a value for it; the key comes before all others.
#[tactic(auto, using(crate::proofs::Inserting::before_first, mmtel_sheet_reader::proofs::Order::before_members))]
pub fn with_key(
    alloc: Global,
    key: &str,
    value: Option<Value>,
    rest: Table,
) -> Result<Table, NoMemory>
    requires { is_before key.now (table_view rest) ≡ true }
    ensures members { IfOk result (λ t. table_view t ≡ with_key key.now (option_map view value) (table_view rest)) }
    ensures before { IfOk result (λ t. (k : List ℕ) → comes_before k key.now ≡ true → is_before k (table_view t) ≡ true) }
{
    match value {
        None => Ok(rest),
        Some(value) => Ok(put_first(alloc, key, value, rest)?),
    }
}

/// The table of no keys.
pub fn no_keys(alloc: Global) -> Table
    ensures members { table_view result ≡ no_members }
    ensures before { (k : List ℕ) → is_before k (table_view result) ≡ true }
{
    Table::new(alloc)
}
