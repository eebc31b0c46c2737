//! Scripts: the events of a run, as a text.
ghost use Rattle.std.specs.Prelude.{◌≡◌};
ghost use Rattle.mmtel_directory.specs.Lines.{lines_of};
ghost use Rattle.mmtel_script.specs.Script.{events_of};
ghost use Rattle.mmtel_script.specs.EventDrafts.{Gathers, Reads};
ghost use Rattle.mmtel_script.specs.declared.scripts.ScriptFault.TheVariants as fault;

use crate::event_drafts::EventDraft;
use mmtel_base::{List, NoMemory};
use mmtel_directory::next_line;
use mmtel_environment::Event;
use mmtel_trust::PeerTable;
use std::alloc::Global;

/// Why a text is no script.
#[derive(Clone, Copy, Debug, PartialEq, Eq)]
pub enum ScriptFault {
    /// The first line that breaks the grammar.
    BadLine {
        /// Its number, from 1.
        line: u64,
    },
    /// Memory ran out.
    NoMemory,
}

impl From<NoMemory> for ScriptFault {
    ghost from_gives = { λ _ e. e ≡ fault.NoMemory };

    fn from(_error: NoMemory) -> ScriptFault {
        ScriptFault::NoMemory
    }
}

/// Adds the content of each line of a text to the events so far.
fn read_lines(
    alloc: Global,
    draft: &mut EventDraft,
    bytes: &[u8],
    peers: &PeerTable,
) -> Result<(), ScriptFault>
    ensures { Reads peers.now.known result draft.old (lines_of bytes.now) draft.new }
{
    let mut number: u64 = 1;
    let mut rest = bytes;
    'lines: while let Some((line, more)) = next_line(rest) {
        draft.read(alloc, number, line, peers)?;
        number += 1;
        rest = more;
    }
    Ok(())
}

/// The events of a text.
pub fn read_events(
    alloc: Global,
    bytes: &[u8],
    peers: &PeerTable,
) -> Result<List<Event>, ScriptFault>
    ensures { Gathers result (events_of peers.now.known bytes.now) }
{
    let mut draft = EventDraft::new();
    match read_lines(alloc, &mut draft, bytes, peers) {
        Ok(()) => draft.finish(alloc),
        Err(fault) => Err(fault),
    }
}
