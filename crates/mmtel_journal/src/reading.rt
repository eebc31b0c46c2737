//! Reading a journal: the gate that ends it, and the contents that its records give.
ghost use Rattle.std.specs.Prelude.{◌≡◌, length, IfOk, IfErr, IfSome, IfNone, List, ℕ, MatchResult};
ghost use Rattle.mmtel_keeper.specs.Contents.{KeeperContents};
ghost use Rattle.mmtel_journal.specs.Journal.{encoded_records, IsJournal};
ghost use Rattle.mmtel_journal.specs.Keepers.{no_contents};
ghost use Rattle.mmtel_journal.specs.Payloads.{AddsAll};
ghost use Rattle.mmtel_journal.specs.Reading.{EndsAt, IsBrokenAt, IsFramed, IsUnframed};
ghost use Rattle.mmtel_journal.specs.ReadLogs.{read_log_contents, OnBroken, IsReadLogOf};

use crate::fields::long_text_at;
use crate::payloads::read_payload;
use mmtel_base::NoMemory;
use mmtel_charging::Row;
use mmtel_sheet_texts::SheetTexts;
use std::alloc::Global;

/// The contents of a journal, and the position of the gate that ends it.
#[derive(Drop)]
pub struct ReadLog {
    pub gate: usize,
    pub sheets: SheetTexts,
    pub rows: Vec<Row>,
}

/// Why a journal was not read.
#[derive(Clone, Copy, Debug, PartialEq, Eq)]
pub enum LogReadFault {
    /// The position of the first record that is not of the format.
    Broken(usize),
    /// Memory ran out.
    NoMemory,
}

impl From<NoMemory> for LogReadFault {
    ghost use Rattle.mmtel_journal.specs.declared.reading.LogReadFault.TheVariants as unread;

    ghost from_gives = { λ _ e. e ≡ unread.NoMemory };

    fn from(_error: NoMemory) -> LogReadFault {
        LogReadFault::NoMemory
    }
}

/// The payload of a record after its open gate, and what follows it.
fn framed_payload(bytes: &[u8]) -> Option<(&[u8], &[u8])>
    ensures found { IfSome result (λ x. IsFramed bytes.now x.0.now x.1.now) }
    ensures none { IfNone result (IsUnframed bytes.now) }
{
    long_text_at(bytes)
}

/// Reads the records one after the other.
fn walk(alloc: Global, bytes: &[u8]) -> Result<ReadLog, LogReadFault>
    ensures found { IfOk result (λ f. EndsAt bytes.now f.gate (read_log_contents f)) }
    ensures broken { IfErr result (OnBroken (IsBrokenAt bytes.now)) }
{
    let mut sheets = SheetTexts::new();
    let mut rows = Vec::new(alloc);
    let mut rest = bytes;
    while let [1, tail @ ..] = rest {
        let Some((payload, behind)) = framed_payload(tail) else {
            return Err(LogReadFault::Broken(bytes.len() - rest.len()));
        };
        if !read_payload(alloc, payload, &mut sheets, &mut rows)? {
            return Err(LogReadFault::Broken(bytes.len() - rest.len()));
        }
        rest = behind;
    }
    let gate = bytes.len() - rest.len();
    if rest.is_empty() {
        return Err(LogReadFault::Broken(gate));
    }
    Ok(ReadLog { gate, sheets, rows })
}

/// The same. Where the bytes are a journal, it is that of one list of payloads and no other: their contents are found, and nothing is broken.
pub fn read_journal(alloc: Global, bytes: &[u8]) -> Result<ReadLog, LogReadFault>
    ensures found { IfOk result (λ f. EndsAt bytes.now f.gate (read_log_contents f)) }
    ensures broken { IfErr result (OnBroken (IsBrokenAt bytes.now)) }
    ensures only { (payloads : List (List ℕ)) (held : KeeperContents) → IsJournal payloads bytes.now
        → AddsAll payloads no_contents held
        → MatchResult result (λ f. IsReadLogOf f (length (encoded_records payloads)) held) (OnBroken (λ _. ⊥)) }
{
    walk(alloc, bytes)
}
