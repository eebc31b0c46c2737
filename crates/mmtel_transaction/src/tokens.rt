//! Tokens: the values of the tags, branches and Call-IDs that the server makes.
ghost use Rattle.std.specs.Prelude.{◌≡◌, OnOk, OnErr, IfOk};
ghost use Rattle.mmtel_base.specs.Numbers.{next_number, token_text};

use mmtel_base::{NoMemory, Text, token_text};
use std::alloc::Global;
use std::marker::Model;

/// A text, and the number of the last token drawn from it.
#[derive(Drop)]
pub struct Tokens {
    token: Text,
    drawn: u64,
}

impl Model for Tokens {
    ghost use Rattle.mmtel_transaction.specs.Tokens.{TokensView};

    ghost Value = { TokensView };

    ghost view = { λ t. record { token = t.token; drawn = t.drawn } };
}

impl Tokens {
    /// No token was drawn yet. It allocates nothing.
    pub fn new(token: Text) -> Tokens
        ensures { result ≡ record { token = token; drawn = 0 } }
    {
        Tokens { token, drawn: 0 }
    }

    /// The next token, `TOKEN-n`, by the number that follows the last one drawn: from 1, each once, up to 2^64 - 1, at which the number stays.
    ///
    /// # Errors
    ///
    /// Out of memory only; no number is then drawn.
    pub fn draw(&mut self, alloc: Global) -> Result<Text, NoMemory>
        ensures text { IfOk result (λ text. text ≡ token_text self.old.token (next_number self.old.drawn)) }
        ensures counted { OnOk result (self.new ≡ record { token = self.old.token; drawn = next_number self.old.drawn }) }
        ensures err { OnErr result (self.new ≡ self.old) }
    {
        let number = self.drawn.saturating_add(1);
        let text = token_text(alloc, self.token.bytes(), number)?;
        self.drawn = number;
        Ok(text)
    }
}
