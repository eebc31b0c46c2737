//! Why bytes could not be read.
ghost use Rattle.std.specs.Prelude.{◌≡◌};
ghost use Rattle.mmtel_lex.specs.declared.faults.LexFault.TheVariants as lex;

use mmtel_base::NoMemory;

/// What is wrong with the bytes of a name-addr, of parameters or of their parts.
#[derive(Clone, Copy, Debug, PartialEq, Eq)]
pub enum LexFault {
    /// The bytes are not of the grammar.
    Malformed,
    /// Memory ran out.
    NoMemory,
}

impl From<NoMemory> for LexFault {
    ghost from_gives = { λ _ e. e ≡ lex.NoMemory };

    fn from(_error: NoMemory) -> LexFault {
        LexFault::NoMemory
    }
}

/// The item that a refused `List::push` returns is dropped, so that `?` works on the result.
impl<T: Drop> From<(T, NoMemory)> for LexFault {
    ghost from_gives = { λ _ e. e ≡ lex.NoMemory };

    fn from(_error: (T, NoMemory)) -> LexFault {
        LexFault::NoMemory
    }
}

/// What is wrong with the bytes of a URI.
#[derive(Clone, Copy, Debug, PartialEq, Eq)]
pub enum UriFault {
    /// The bytes are not of the grammar.
    Malformed,
    /// The bytes begin with another scheme than `sip` and `tel`.
    Scheme,
    /// Memory ran out.
    NoMemory,
}
