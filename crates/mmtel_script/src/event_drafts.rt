//! The events of a script while its lines are read.
ghost use Rattle.std.specs.Prelude.{◌≡◌, OnOk, None, Ok};
ghost use Rattle.mmtel_script.specs.EventDrafts.{Gathers, Steps, drafted_events, empty_draft, step, with_line};
ghost use Rattle.mmtel_script.specs.declared.script_lines.ScriptLine.TheVariants as said;

use crate::script_lines::{ScriptLine, read_script_line};
use crate::scripts::ScriptFault;
use mmtel_base::{List, NoMemory, Text};
use mmtel_environment::Event;
use mmtel_trust::PeerTable;
use std::alloc::Global;

/// The events of the lines so far.
#[derive(Drop)]
pub struct EventDraft {
    events: List<Event>,
    /// The last event, whose data lines are being read.
    last: Option<Event>,
}

impl EventDraft {
    /// The events of no lines.
    pub fn new() -> EventDraft
        ensures { result ≡ empty_draft }
    {
        EventDraft {
            events: List::new(),
            last: None,
        }
    }

    /// Puts the last event, if there is one, after the others.
    fn close(&mut self, alloc: Global) -> Result<(), NoMemory>
        ensures { OnOk result (self.new ≡ record { events = drafted_events self.old; last = None }) }
    {
        match self.last.take() {
            None => Ok(()),
            Some(last) => {
                self.events.push(alloc, last)?;
                Ok(())
            }
        }
    }

    fn add_data(&mut self, alloc: Global, number: u64, more: &Text) -> Result<(), ScriptFault>
        ensures { Steps result number (with_line self.old (said.Data more.now)) self.new }
    {
        match &mut self.last {
            Some(Event::Datagram { bytes, .. }) => {
                bytes.push(alloc, more.bytes())?;
                Ok(())
            }
            Some(Event::Web { bytes, .. }) => {
                bytes.push(alloc, more.bytes())?;
                Ok(())
            }
            Some(Event::Quiet { .. }) | None => Err(ScriptFault::BadLine { line: number }),
        }
    }

    fn add(&mut self, alloc: Global, number: u64, line: ScriptLine) -> Result<(), ScriptFault>
        ensures { Steps result number (with_line self.old line) self.new }
    {
        match line {
            ScriptLine::Comment => Ok(()),
            ScriptLine::Begins(event) => {
                self.close(alloc)?;
                self.last = Some(event);
                Ok(())
            }
            ScriptLine::Data(bytes) => self.add_data(alloc, number, &bytes),
        }
    }

    /// Reads the line of this number, and adds its content.
    pub fn read(
        &mut self,
        alloc: Global,
        number: u64,
        line: &[u8],
        peers: &PeerTable,
    ) -> Result<(), ScriptFault>
        ensures { Steps result number (step peers.now.known self.old line.now) self.new }
    {
        match read_script_line(alloc, line, peers)? {
            None => Err(ScriptFault::BadLine { line: number }),
            Some(script_line) => self.add(alloc, number, script_line),
        }
    }

    /// The events, where no further line follows.
    pub fn finish(self, alloc: Global) -> Result<List<Event>, ScriptFault>
        ensures { Gathers result (Ok (drafted_events self)) }
    {
        let mut draft = self;
        draft.close(alloc)?;
        Ok(draft.events)
    }
}
