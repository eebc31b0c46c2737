//! To which request a message belongs: the branch of its first Via line, and the method of its first CSeq line (RFC 3261 §17.1.3).
ghost use Rattle.std.specs.Prelude.{◌≡◌, List, Some, codes};
ghost use Rattle.std.specs.Bool.{OnFalse};
ghost use Rattle.std.specs.Option.{option_copied};
ghost use Rattle.mmtel_message.specs.Identifiers.{Identifiers, branch_of_via, first_branch, first_method, identifiers_in};
ghost use Rattle.mmtel_message.specs.Message.{Line, first_value};

use crate::expansion::may_split;
use crate::field_refs::{cseq_ref, via_ref};
use crate::identifiers::Identifiers;
use crate::messages::Msg;

/// The branch of a Via value.
fn branch_in(value: &[u8]) -> Option<&[u8]>
    ensures { option_copied result ≡ branch_of_via value.now }
{
    match via_ref(value) {
        None => None,
        Some(via) => via.param(b"branch"),
    }
}

/// Whether a first Via line of this value may have another branch than the one that was read from the five fields: none was read, or the line may have several values.
fn may_differ(branch: &[u8], value: &[u8]) -> bool
    ensures { OnFalse result ((ls : List Line) (said : Identifiers) → identifiers_in ls ≡ Some said → said.branch ≡ branch.now → first_value (codes "Via") ls ≡ Some value.now →
        Some branch.now ≡ first_branch ls) }
{
    if branch.is_empty() {
        return true;
    }
    may_split(value)
}

/// The branch of a first Via line of this value, where these identifiers were read from the five fields.
fn branch_by<'a>(identifiers: &Identifiers<'a>, value: &'a [u8]) -> Option<&'a [u8]>
    ensures { (ls : List Line) → identifiers_in ls ≡ Some identifiers.now → first_value (codes "Via") ls ≡ Some value.now → option_copied result ≡ first_branch ls }
{
    if may_differ(identifiers.branch, value) {
        return branch_in(value);
    }
    Some(identifiers.branch)
}

/// The method of CSeq.
fn method_of<'a>(identifiers: &Identifiers<'a>) -> &'a [u8]
    ensures { result.now ≡ identifiers.now.method }
{
    identifiers.method
}

/// The method of the first CSeq line, read from that line.
fn read_method(message: &Msg) -> Option<&[u8]>
    ensures { option_copied result ≡ first_method message.now.lines }
{
    match message.first(b"CSeq") {
        None => None,
        Some(value) => match cseq_ref(value) {
            None => None,
            Some(cseq) => Some(cseq.method()),
        },
    }
}

impl Msg {
    /// The branch of the first Via line, where that is one Via value that has a branch (RFC 3261 §17.1.3). It allocates nothing, and does not parse a message that keeps it.
    pub fn first_branch(&self) -> Option<&[u8]>
        ensures { option_copied result ≡ first_branch self.now.lines }
    {
        match self.first(b"Via") {
            None => None,
            Some(value) => match self.identifiers() {
                None => branch_in(value),
                Some(said) => branch_by(&said, value),
            },
        }
    }

    /// The method of the first CSeq line, where that can be read (RFC 3261 §20.16). It allocates nothing, and does not parse a message that keeps it.
    pub fn first_method(&self) -> Option<&[u8]>
        ensures { option_copied result ≡ first_method self.now.lines }
    {
        match self.identifiers() {
            None => read_method(self),
            Some(said) => Some(method_of(&said)),
        }
    }
}
