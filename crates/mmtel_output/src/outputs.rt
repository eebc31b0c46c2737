//! The output of a step.
ghost use Rattle.std.specs.Prelude.{◌≡◌, ◌∷◌, ◌++◌, [], IfOk, OnErr, OnOk};
ghost use Rattle.mmtel_output.specs.Outputs.{after_draw, empty_output, token, with_emit};

use mmtel_base::{List, NoMemory, Text};
use mmtel_charging::Row;
use mmtel_transaction::{Emit, Emits, Tokens};
use std::alloc::Global;

/// The output of a step of a call or of a conference.
#[derive(Drop)]
pub struct StepOutput {
    /// From which tokens are drawn.
    pub tokens: Tokens,
    /// The commands, in order.
    pub out: Emits,
    /// The rows that were closed, in order.
    pub rows: List<Row>,
}

/// Appends an item to a list: a closed row to the rows of an output.
///
/// # Errors
///
/// Out of memory only; the list is then as before, and the item is dropped.
pub fn push_item<T: Drop>(alloc: Global, list: &mut List<T>, item: T) -> Result<(), NoMemory>
    ensures filed { OnOk result (list.new ≡ list.old ++ item ∷ []) }
    ensures refused { OnErr result (list.new ≡ list.old) }
{
    list.push(alloc, item)?;
    Ok(())
}

impl StepOutput {
    /// The output at the beginning of a step, before which these tokens were drawn. It allocates nothing.
    pub fn new(tokens: Tokens) -> StepOutput
        ensures output { result ≡ empty_output tokens }
    {
        StepOutput {
            tokens,
            out: List::new(),
            rows: List::new(),
        }
    }

    /// Draws a token.
    ///
    /// # Errors
    ///
    /// Out of memory only; the output is then as before.
    pub fn draw(&mut self, alloc: Global) -> Result<Text, NoMemory>
        ensures text { IfOk result (λ t. t ≡ token self.old) }
        ensures done { OnOk result (self.new ≡ after_draw self.old) }
        ensures refused { OnErr result (self.new ≡ self.old) }
    {
        self.tokens.draw(alloc)
    }

    /// Emits one more command.
    ///
    /// # Errors
    ///
    /// Out of memory only; the output is then as before, and the command is dropped.
    pub fn emit(&mut self, alloc: Global, emit: Emit) -> Result<(), NoMemory>
        ensures done { OnOk result (self.new ≡ with_emit emit self.old) }
        ensures refused { OnErr result (self.new ≡ self.old) }
    {
        push_item(alloc, &mut self.out, emit)
    }
}
