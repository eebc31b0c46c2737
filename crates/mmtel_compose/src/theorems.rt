//! Theorems about the definitions that contracts cite: each is the contract of a function that does nothing.
ghost use Rattle.std.specs.Prelude.{◌≡◌, ◌⊎◌, ◌<◌, ◌^◌, Bool, true, false, List, [], ℕ, Some, codes};
ghost use Rattle.mmtel_history.specs.HistoryInfo.{masked_list};
ghost use Rattle.mmtel_history.specs.declared.entries.Entry.{Entry};
ghost use Rattle.mmtel_leg.specs.Dialogues.{callee_dialogue};
ghost use Rattle.mmtel_leg.specs.Requests.{RequestPartsView, request_numbered};
ghost use Rattle.mmtel_leg.specs.declared.dialogues.Dialogue.{Dialogue};
ghost use Rattle.mmtel_lex.specs.Grammar.{IsToken};
ghost use Rattle.mmtel_message.specs.Fields.{five_at};
ghost use Rattle.mmtel_message.specs.Message.{Line, Message, first_value, lines_named};
ghost use Rattle.mmtel_message.specs.Responses.{AreLinesWith, Reply, five_of_response, response};
ghost use Rattle.mmtel_message.specs.Vias.{IsSource};
ghost use Rattle.mmtel_message.specs.declared.fields.Five.{Five};
ghost use Rattle.mmtel_message.specs.declared.messages.Start.{Start};
ghost use Rattle.mmtel_trust.specs.ParsedMessage.{ParsedMessage, tag_of};
ghost use Rattle.mmtel_trust.specs.PrivateFields.{PrivateFields, masked_lines};
ghost use Rattle.mmtel_trust.specs.MaskedMessages.{Restriction, mask};
ghost use Rattle.mmtel_trust.specs.HeaderTable.{attempt_from, shown_lines};
ghost use Rattle.mmtel_trust.specs.declared.accounts.AccountIdentity.{AccountIdentity};
ghost use Rattle.mmtel_trust.specs.declared.header_table.Facing.{Facing};
ghost use Rattle.mmtel_types.specs.declared.addrs.Addr.{Addr};
ghost use Rattle.mmtel_types.specs.declared.numbers.Peer.{Peer};
ghost use Rattle.mmtel_compose.specs.Responses.{relayed_reply, relayed_response};
ghost use Rattle.mmtel_compose.specs.Attempts.{as_callee, dialogue_to, first_destination, invite_of};
ghost use Rattle.mmtel_compose.specs.InviteCopies.{CopiesInvite};
ghost use Rattle.mmtel_compose.specs.Requests.{cancel_of, final_ack_of};
ghost use Rattle.mmtel_compose.specs.ReceivedMessages.{MessageView};
ghost use Rattle.mmtel_compose.specs.declared.attempts.Destination.{Destination};

use mmtel_leg::{numbers_read_back, requests_name_their_dialog};
use mmtel_message::theorems::responses_have_the_fields;
use mmtel_trust::{
    equal_masks_decide_the_same, masked_histories_show_the_same, masking_keeps_the_rest,
    masks_leave_the_route, own_fields_are_not_passed,
};

/// A CANCEL and the ACK of a final from 300 have their INVITE's Request-URI, branch, Route values, From, Call-ID and number (RFC 3261 §9.1, §17.1.1.3), where the INVITE has no
/// Route line among those that it passes on.
/// A CANCEL has its To as well, and the ACK that of the final.
pub fn cancel_and_ack_copy_the_invite()
    ensures cancel { (d : Dialogue) (number : ℕ) (given : RequestPartsView) → lines_named (codes "Route") given.shown ≡ [] →
        CopiesInvite (request_numbered d number (codes "INVITE") given) (cancel_of d number given.sip given.branch) }
    ensures cancel_to { (d : Dialogue) (number : ℕ) (given : RequestPartsView) →
        first_value (codes "To") (cancel_of d number given.sip given.branch).lines ≡ first_value (codes "To") (request_numbered d number (codes "INVITE") given).lines }
    ensures ack { (d : Dialogue) (number : ℕ) (given : RequestPartsView) (to : List ℕ) → lines_named (codes "Route") given.shown ≡ [] →
        CopiesInvite (request_numbered d number (codes "INVITE") given) (final_ack_of d number given.sip given.branch to) }
    ensures ack_to { (d : Dialogue) (number : ℕ) (sip : Addr) (branch to : List ℕ) → first_value (codes "To") (final_ack_of d number sip branch to).lines ≡ Some to }
{
    requests_name_their_dialog();
}

/// The dialog that a leg keeps for the INVITE of an attempt is the one that begins with this INVITE (RFC 3261 §12.1.2), where the tag is read from From.
pub fn legs_begin_with_their_invite()
    ensures leg { (aim : Destination) (call_id tag from : List ℕ) (given : RequestPartsView) → tag_of (Some from) ≡ Some tag →
        callee_dialogue aim.peer (request_numbered (dialogue_to aim call_id tag from) 1 (codes "INVITE") given) ≡ as_callee (dialogue_to aim call_id tag from) }
{
    requests_name_their_dialog();
    numbers_read_back();
}

/// A relayed response has the five fields of the request to which it responds (RFC 3261 §8.1.1, §16.7), Via completed and To with the tag, whatever response was received, and
/// whatever of it is shown by the header table.
pub fn relayed_responses_have_fields()
    ensures five { (contact tag : List ℕ) (m r : MessageView) (f : Facing) (to_trusted : Bool) (h : List Entry) (five : Five) → IsSource m.source → (tag ≡ []) ⊎ IsToken tag →
        AreLinesWith five m.parsed.lines →
        five_at (relayed_response contact m tag (shown_lines f to_trusted h r.parsed.start r.parsed.lines) r).lines
        ≡ Some (five_of_response (relayed_reply contact m.source tag (shown_lines f to_trusted h r.parsed.start r.parsed.lines) r.parsed) five) }
{
    own_fields_are_not_passed();
    responses_have_the_fields();
}

/// A response depends on its request's lines of six names, and on those of Record-Route only where it makes a dialog.
pub fn responses_rest_on_six_names()
    ensures same { (start : Start) (ls ms : List Line) (r : Reply) → lines_named (codes "Via") ls ≡ lines_named (codes "Via") ms →
        lines_named (codes "From") ls ≡ lines_named (codes "From") ms →
        lines_named (codes "To") ls ≡ lines_named (codes "To") ms → lines_named (codes "Call-ID") ls ≡ lines_named (codes "Call-ID") ms →
        lines_named (codes "CSeq") ls ≡ lines_named (codes "CSeq") ms →
        lines_named (codes "Record-Route") ls ≡ lines_named (codes "Record-Route") ms → response start ls r ≡ response start ms r }
{}

/// The only private places of its request that a response contains are those of From and To: where these are not private, the response to the message and to the masked one is
/// the same. And two requests of equal masks, the one from an untrusted peer, get the same responses: what such a peer sends has no private place.
pub fn masked_requests_get_one_response()
    ensures kept { (p : PrivateFields) (start : Start) (ls : List Line) (r : Reply) → p.from ≡ false → p.to ≡ false → response start (masked_lines p ls) r ≡ response start ls r }
    ensures strangers { (restricts : Restriction) (accounts others : List AccountIdentity) (m n : ParsedMessage) (r : Reply) →
        mask restricts accounts m ≡ mask restricts others n → m.trusted ≡ false → response m.start m.lines r ≡ response n.start n.lines r }
{
    equal_masks_decide_the_same();
    masking_keeps_the_rest();
    masks_leave_the_route();
}

/// For two INVITEs of equal masks, with lists of History-Info that are equal when masked, the INVITE of an attempt towards an untrusted peer is the same where the caller is
/// restricted: its dialog, each line and the body.
pub fn attempts_hide_their_caller()
    ensures destination { (restricts : Restriction) (accounts others : List AccountIdentity) (m n : ParsedMessage) (peer : Peer) (routes : List (List ℕ)) →
        mask restricts accounts m ≡ mask restricts others n → first_destination peer routes m ≡ first_destination peer routes n }
    ensures dialog { (aim : Destination) (call_id tag : List ℕ) (m n : ParsedMessage) →
        dialogue_to aim call_id tag (attempt_from true tag m.lines) ≡ dialogue_to aim call_id tag (attempt_from true tag n.lines) }
    ensures invite { (restricts : Restriction) (accounts others : List AccountIdentity) (m n : ParsedMessage) (f : Facing) (h k : List Entry) (d : Dialogue) (sip : Addr)
        (branch : List ℕ) (waiting : Bool) → mask restricts accounts m ≡ mask restricts others n → f.restricted ≡ true →
        masked_list f.mask_all h ≡ masked_list f.mask_all k →
        invite_of d sip branch (shown_lines f false h m.start m.lines) waiting m ≡ invite_of d sip branch (shown_lines f false k n.start n.lines) waiting n }
{
    equal_masks_decide_the_same();
    masked_histories_show_the_same();
}
