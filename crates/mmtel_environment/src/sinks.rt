//! The output of text.
ghost use Rattle.std.specs.Prelude.{◌≡◌, ◌≤◌, ℕ, List, [], length, Option, IfOk, OnOk, OnErr, Ok};
ghost use Rattle.std.specs.Io.KnownBytes.{Appends, WriteAppends};
ghost use Rattle.mmtel_environment.specs.Counts.{HasCause};
ghost use Rattle.mmtel_environment.specs.Written.{AppendsPart};

use mmtel_types::Failed;

/// An output of text, with what was written to it where that is known, and a count of faults.
pub trait Sink {
    /// The bytes that were written, where they are known.
    ghost written: { Self → Option (List ℕ) };

    /// How many writes returned `Failed`. It never decreases, and remains at the greatest u64.
    ghost faults: { Self → ℕ };

    /// Writes a prefix of the bytes, and returns its length. It allocates nothing.
    ///
    /// # Errors
    ///
    /// `Failed` only where the count of faults rose in this call; nothing was written then. A write that accepts none of bytes that are not empty fails so.
    fn write(&mut self, bytes: &[u8]) -> Result<usize, Failed>
        ensures bound { IfOk result (λ count. count ≤ length bytes.now) }
        ensures progress { IfOk result (λ count. count ≡ 0 → bytes.now ≡ []) }
        ensures empty { bytes.now ≡ [] → result ≡ Ok 0 }
        ensures appended { WriteAppends (written self.old) (written self.new) result bytes.now }
        ensures cause { HasCause (faults self.old) (faults self.new) result };
}

/// Writes the whole text, a piece at a time.
///
/// # Errors
///
/// `Failed` only where the count of faults rose in this call; a proper prefix of the text was written then.
pub fn write_all<S: Sink>(out: &mut S, text: &[u8]) -> Result<(), Failed>
    ensures whole { OnOk result (Appends (S.written out.old) (S.written out.new) text.now) }
    ensures part { OnErr result (AppendsPart (S.written out.old) (S.written out.new) text.now) }
    ensures cause { HasCause (S.faults out.old) (S.faults out.new) result }
{
    let mut at = 0;
    while at < text.len() {
        at += out.write(&text[at..])?;
    }
    Ok(())
}
