//! The values of the lines of a name, one after another, in place in a message.
ghost use Rattle.std.specs.Prelude.{◌≡◌, ◌∷◌, [], drop};
ghost use Rattle.std.specs.Iterator.{YieldsFirstRef, item_count};
ghost use Rattle.std.specs.Option.{MatchOption};
ghost use Rattle.mmtel_message.specs.Message.{line_texts};

use crate::held::Lines;
use crate::messages::Msg;
use std::marker::Model;

/// The value of the first line of the name from this place on, and the place after it.
fn next_value<'a>(lines: &Lines<'a>, name: &[u8], from: usize) -> Option<(&'a [u8], usize)>
    ensures { MatchOption result (line_texts name.now (drop from lines.now.values) ≡ [])
        (λ x. line_texts name.now (drop from lines.now.values) ≡ x.0.now ∷ line_texts name.now (drop x.1 lines.now.values)) }
{
    match lines.next_named(name, from) {
        None => None,
        Some(line) => Some((line.value, line.next)),
    }
}

/// The values of the lines of a name, in order, borrowed from their message. In contracts it is the list of those that remain.
#[derive(Drop)]
pub struct ValuesIn<'a> {
    lines: Lines<'a>,
    name: &'a [u8],
    from: usize,
}

impl<'a> Model for ValuesIn<'a> {
    ghost use Rattle.std.specs.Prelude.{List, ℕ, drop};
    ghost use Rattle.mmtel_message.specs.Message.{line_texts};

    ghost Value = { List (List ℕ) };

    ghost view = { λ v. line_texts v.name.now (drop v.from v.lines.values) };
}

impl<'a> Iterator for ValuesIn<'a> {
    type Item = &'a [u8];

    ghost next_gives = { YieldsFirstRef (λ left. left) };

    ghost remaining = { item_count (λ left. left) };

    fn next(&mut self) -> Option<&'a [u8]> {
        match next_value(&self.lines, self.name, self.from) {
            None => None,
            Some((value, after)) => {
                self.from = after;
                Some(value)
            }
        }
    }
}

impl Msg {
    /// The values of the lines of the name, which is compared without case, in order and borrowed. It allocates nothing.
    pub fn values_in<'a>(&'a self, name: &'a [u8]) -> ValuesIn<'a>
        ensures { result ≡ line_texts name.now self.now.lines }
    {
        ValuesIn {
            lines: self.lines(),
            name,
            from: 0,
        }
    }
}
