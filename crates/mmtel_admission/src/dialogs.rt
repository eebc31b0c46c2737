//! The name of the dialog that a message names.
ghost use Rattle.std.specs.Prelude.{◌≡◌, IfOk};
ghost use Rattle.std.specs.Option.{option_copied, option_map};
ghost use Rattle.mmtel_trust.specs.ParsedMessage.{tag_of};
ghost use Rattle.mmtel_run_definitions.specs.Calls.{dialog_name, name_by};
ghost use Rattle.mmtel_admission.specs.Dialogs.{name_in};

use mmtel_base::{NoMemory, Text};
use mmtel_compose::ReceivedMessage;
use mmtel_lex::name_addr_ref;
use std::alloc::Global;

/// The name of a dialog (RFC 3261 §12).
#[derive(Drop)]
pub struct DialogName {
    /// Call-ID.
    pub call_id: Text,
    /// The server's tag.
    pub local: Text,
    /// The remote tag.
    pub remote: Text,
}

/// A copy of these bytes, where there are any.
fn copy_bytes(alloc: Global, value: Option<&[u8]>) -> Result<Option<Text>, NoMemory>
    ensures { IfOk result (λ text. text ≡ option_copied value.entry) }
{
    match value {
        None => Ok(None),
        Some(value) => Ok(Some(Text::of(alloc, value)?)),
    }
}

/// The tag of a From or To value (RFC 3261 §19.3), where it has one.
fn tag_of(alloc: Global, value: Option<&[u8]>) -> Result<Option<Text>, NoMemory>
    ensures { IfOk result (λ tag. tag ≡ tag_of (option_copied value.entry)) }
{
    match value {
        None => Ok(None),
        Some(value) => match name_addr_ref(value) {
            None => Ok(None),
            Some(name) => copy_bytes(alloc, name.params.value(b"tag")),
        },
    }
}

/// The name of a dialog of this Call-ID and these tags, where none of them is absent.
fn name_by(call_id: Option<Text>, local: Option<Text>, remote: Option<Text>) -> Option<DialogName>
    ensures { option_map name_in result ≡ name_by call_id local remote }
{
    Some(DialogName {
        call_id: call_id?,
        local: local?,
        remote: remote?,
    })
}

/// The name of the dialog that a message of a peer names: its Call-ID, the tag of To, which is the server's, and that of From (RFC 3261 §12.2.2).
///
/// # Errors
///
/// Out of memory only.
pub fn dialog_name(alloc: Global, message: &ReceivedMessage) -> Result<Option<DialogName>, NoMemory>
    ensures name { IfOk result (λ name. option_map name_in name ≡ dialog_name message.now.parsed) }
{
    let call_id = copy_bytes(alloc, message.message.first(b"Call-ID"))?;
    let local = tag_of(alloc, message.message.first(b"To"))?;
    let remote = tag_of(alloc, message.message.first(b"From"))?;
    Ok(name_by(call_id, local, remote))
}
