//! Decisions about an INVITE that the server sent: when its CANCEL is due, and to which dialog a 2xx of it belongs.
ghost use Rattle.std.specs.Prelude.{◌≡◌};
ghost use Rattle.mmtel_sip_rules.specs.Invites.{is_cancel_due, is_of_dialog};

/// Whether the CANCEL of an INVITE is due: a provisional response was received, and no CANCEL was sent (RFC 3261 §9.1).
pub fn is_cancel_due(provisional: bool, cancelled: bool) -> bool
    ensures exact { result ≡ is_cancel_due provisional cancelled }
{
    provisional && !cancelled
}

/// Whether a 2xx with this To tag belongs to the dialog with this remote tag: each 2xx of an INVITE within a dialog belongs to that dialog, and for one that opens dialogs the
/// tag decides (RFC 3261 §13.2.2.4).
pub fn is_of_dialog(in_dialog: bool, own: &[u8], tag: &[u8]) -> bool
    ensures exact { result ≡ is_of_dialog in_dialog own.now tag.now }
{
    in_dialog || own == tag
}
