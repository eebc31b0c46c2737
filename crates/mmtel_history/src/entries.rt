//! One entry: how a value is read and written.
ghost use Rattle.std.specs.Prelude.{Some, ◌≡◌, ◌+◌, take, drop, ◌++◌, ◌∷◌, [], IfOk, MatchOption, length, ◌<◌, IfSome};
ghost use Rattle.mmtel_lex.specs.Grammar.{params_text};
ghost use Rattle.mmtel_lex.specs.Reading.{IsResult};
ghost use Rattle.mmtel_history.specs.EntryUri.{with_cause};
ghost use Rattle.mmtel_history.specs.HistoryInfo.{is_index, without_index, entry_with, entry_in, entry_of, written_uri, entry_text, target_entry, masked_uri, masked_entry};
ghost use Rattle.mmtel_history.specs.HistoryInfo.{IsReadable, written_entry};

use crate::uris::{add_marked, cause_of, is_marked, with_cause};
use mmtel_base::{NoMemory, Text};
use mmtel_lex::{LexFault, NameAddr, Param, add_params, param_value, read_name_addr};
use mmtel_message::is_index_value;
use std::alloc::Global;

/// The anonymous URI, which replaces a URI that is not shown (RFC 3323 §4.1.1.3).
pub const ANONYMOUS: &[u8] = b"sip:anonymous@anonymous.invalid";

/// An entry of History-Info (RFC 7044 §5): a target of the call.
#[derive(Drop)]
pub struct Entry {
    /// The target's URI, as it was received or given.
    pub uri: Text,
    /// The place of the entry in the tree of targets: numbers separated by dots.
    pub index: Text,
    /// The cause of the diversion that led to the target (RFC 4458), where one did.
    pub cause: Option<u16>,
    /// Whether the entry is hidden; where it is, its URI is written with `Privacy=history` in its header part.
    pub hidden: bool,
    /// The other parameters of the entry, each with its `;`.
    pub rest: Text,
}

impl Entry {
    /// A copy of the entry.
    ///
    /// # Errors
    ///
    /// Out of memory only.
    pub fn copied(&self, alloc: Global) -> Result<Entry, NoMemory>
        ensures same { IfOk result (λ e. e ≡ self.now) }
    {
        let uri = Text::of(alloc, self.uri.bytes())?;
        let index = Text::of(alloc, self.index.bytes())?;
        let rest = Text::of(alloc, self.rest.bytes())?;
        Ok(Entry {
            uri,
            index,
            cause: self.cause,
            hidden: self.hidden,
            rest,
        })
    }
}

/// Whether the parameter is an index.
fn is_index(param: &Param) -> bool
    ensures { result ≡ is_index param.now }
{
    param.name.bytes().eq_ignore_ascii_case(b"index")
}

/// The place of the first index.
fn index_position(params: &[Param]) -> Option<usize>
    ensures others { MatchOption result (without_index params.now ≡ params.now) (λ n. without_index params.now ≡ take n params.now ++ drop (n + 1) params.now) }
    ensures within { IfSome result (λ n. n < length params.now) }
{
    for (i, param) in params.iter().enumerate() {
        if is_index(param) {
            return Some(i);
        }
    }
    None
}

/// The text of the parameters except the first index.
fn other_params(alloc: Global, params: &[Param]) -> Result<Text, NoMemory>
    ensures { IfOk result (λ t. t ≡ params_text (without_index params.now)) }
{
    let mut out = Text::new();
    match index_position(params) {
        None => add_params(alloc, &mut out, params)?,
        Some(place) => {
            let (front, _) = params.split_at(place);
            let (_, back) = params.split_at(place + 1);
            add_params(alloc, &mut out, front)?;
            add_params(alloc, &mut out, back)?;
        }
    }
    Ok(out)
}

/// The entry of a URI, which determines its cause and its mark.
fn entry_with(uri: Text, index: Text, rest: Text) -> Entry
    ensures { result ≡ entry_with uri index rest }
{
    let cause = cause_of(uri.bytes());
    let hidden = is_marked(uri.bytes());
    Entry {
        uri,
        index,
        cause,
        hidden,
        rest,
    }
}

/// The entry of a URI alone.
pub fn first_entry(alloc: Global, uri: &[u8]) -> Result<Entry, NoMemory>
    ensures { IfOk result (λ e. e ≡ entry_with uri.now (49 ∷ []) []) }
{
    let uri = Text::of(alloc, uri)?;
    let index = Text::of(alloc, b"1")?;
    Ok(entry_with(uri, index, Text::new()))
}

/// The entry of a name-addr whose first index is numbers separated by dots.
fn entry_in(alloc: Global, name_addr: NameAddr) -> Result<Entry, LexFault>
    ensures { IsResult (λ x. x) result (entry_in name_addr) }
{
    let NameAddr {
        display: _,
        uri,
        params,
    } = name_addr;
    let params = params.items();
    let index = param_value(params, b"index");
    if !is_index_value(index) {
        return Err(LexFault::Malformed);
    }
    let index = Text::of(alloc, index.unwrap_or(&[]))?;
    let rest = other_params(alloc, params)?;
    Ok(entry_with(uri, index, rest))
}

/// Reads a value of History-Info.
#[tactic(auto, unfolding(crate::specs::HistoryInfo::entry_of))]
pub fn read_entry(alloc: Global, value: &[u8]) -> Result<Entry, LexFault>
    ensures { IsResult (λ x. x) result (entry_of value.now) }
{
    let name_addr = read_name_addr(alloc, value)?;
    entry_in(alloc, name_addr)
}

#[tactic(auto, unfolding(crate::specs::HistoryInfo::written_uri, crate::specs::HistoryInfo::entry_text))]
fn value_of(alloc: Global, entry: &Entry) -> Result<Text, NoMemory>
    ensures { IfOk result (λ t. t ≡ entry_text entry.now) }
{
    let mut out = Text::of(alloc, b"<")?;
    if entry.hidden {
        add_marked(alloc, &mut out, entry.uri.bytes())?;
    } else {
        out.push(alloc, entry.uri.bytes())?;
    }
    out.push(alloc, b">;index=")?;
    out.push(alloc, entry.index.bytes())?;
    out.push(alloc, entry.rest.bytes())?;
    Ok(out)
}

/// The value of an entry: `<URI>;index=I` and its other parameters (RFC 7044 §5). The URI of a hidden entry has `Privacy=history` in its header part.
///
/// # Errors
///
/// Out of memory only.
pub fn write_entry(alloc: Global, entry: &Entry) -> Result<Text, NoMemory>
    ensures text { IfOk result (λ t. t ≡ entry_text entry.now) }
    // It is read again as the same entry, with its URI as it is written.
    ensures reads_back { IsReadable entry.now → IfOk result (λ t. entry_of t ≡ Some (written_entry entry.now)) }
{
    value_of(alloc, entry)
}

/// The entry of a new target, below the entry of this index.
pub fn target_entry(
    alloc: Global,
    index: &[u8],
    target: &[u8],
    cause: u16,
) -> Result<Entry, NoMemory>
    ensures { IfOk result (λ e. e ≡ target_entry index.now target.now cause) }
{
    let uri = with_cause(alloc, target, cause)?;
    let mut index = Text::of(alloc, index)?;
    index.push(alloc, b".1")?;
    let hidden = is_marked(uri.bytes());
    Ok(Entry {
        uri,
        index,
        cause: Some(cause),
        hidden,
        rest: Text::new(),
    })
}

/// The anonymous URI, with the cause.
fn masked_uri(alloc: Global, cause: Option<u16>) -> Result<Text, NoMemory>
    ensures { IfOk result (λ t. t ≡ masked_uri cause) }
{
    match cause {
        None => Text::of(alloc, ANONYMOUS),
        Some(cause) => with_cause(alloc, ANONYMOUS, cause),
    }
}

/// A copy of the entry, with the anonymous URI where it is hidden or all are.
pub fn masked_entry(alloc: Global, entry: &Entry, all: bool) -> Result<Entry, NoMemory>
    ensures { IfOk result (λ e. e ≡ masked_entry all entry.now) }
{
    let mut masked = entry.copied(alloc)?;
    if all || entry.hidden {
        masked.uri = masked_uri(alloc, entry.cause)?;
        masked.hidden = false;
    }
    Ok(masked)
}
