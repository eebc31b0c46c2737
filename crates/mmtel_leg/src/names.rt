//! The identifiers of a dialog.
ghost use Rattle.std.specs.Prelude.{◌≡◌};
ghost use Rattle.mmtel_leg.specs.Names.{has_name};

use crate::dialogues::Dialogue;

/// The identifiers of a dialog as a request has them: its Call-ID, the server's tag, and the other side's (RFC 3261 §12).
#[derive(Clone, Copy)]
pub struct DialogName<'a> {
    /// Call-ID.
    pub call_id: &'a [u8],
    /// The server's tag.
    pub local: &'a [u8],
    /// The tag of the other side.
    pub remote: &'a [u8],
}

impl<'a> DialogName<'a> {
    /// Whether the dialog has these identifiers.
    pub fn is_of(&self, dialogue: &Dialogue) -> bool
        ensures exact { result ≡ has_name self.now.call_id.now self.now.local.now self.now.remote.now dialogue.now }
    {
        dialogue.call_id.bytes() == self.call_id
            && dialogue.local_tag.bytes() == self.local
            && dialogue.remote_tag.bytes() == self.remote
    }
}
