//! Theorems about the definitions that the contracts of legs cite: each is the contract of a function that does nothing.
ghost use Rattle.std.specs.Prelude.{◌≡◌, ◌+◌, ◌<◌, ◌^◌, ◌++◌, ◌∷◌, ◌⊎◌, ℕ, List, [], Option, Some, Err, codes, length, true};
ghost use Rattle.std.specs.List.{list_all};
ghost use Rattle.std.specs.Option.{unwrap_or};
ghost use Rattle.mmtel_message.specs.Message.{Message, first_value};
ghost use Rattle.mmtel_message.specs.declared.messages.Start.{Start};
ghost use Rattle.mmtel_lex.specs.Grammar.{IsToken, IsValue};
ghost use Rattle.mmtel_lex.specs.Reading.{name_addr_of};
ghost use Rattle.mmtel_lex.specs.declared.values.NameAddr.{NameAddr};
ghost use Rattle.mmtel_message.specs.Fields.{five_at};
ghost use Rattle.mmtel_message.specs.Responses.{AreOthers, IsUntagged, tagged_value};
ghost use Rattle.mmtel_message.specs.Vias.{IsSource};
ghost use Rattle.mmtel_charging.specs.Meters.{MeterView};
ghost use Rattle.mmtel_types.specs.declared.numbers.Peer.{Peer};
ghost use Rattle.mmtel_leg.specs.Operations.LegOperation.{LearnsRemote, ReceivesRequest, SendsRequest};
ghost use Rattle.mmtel_leg.specs.declared.remotes.Remote.{Remote};
ghost use Rattle.mmtel_leg.specs.Dialogues.{number_in, receive_result};
ghost use Rattle.mmtel_leg.specs.Remotes.{field, tag_in};
ghost use Rattle.mmtel_leg.specs.declared.dialogues.DialogueFault.{DialogueFault};
ghost use Rattle.mmtel_leg.specs.declared.dialogues.InFlight.{InFlight};
ghost use Rattle.mmtel_leg.specs.Operations.{HasNumber, HaveOneNumber, IsCountedFrom, IsNotBelow, LegOperation, ReadsAs};
ghost use Rattle.mmtel_leg.specs.Operations.{ReceivesEach, after_operation, after_operations, is_of_confirmed, meters_handed_back};
ghost use Rattle.mmtel_leg.specs.Operations.{is_not_invite, meters_put_in, requests};
ghost use Rattle.mmtel_leg.specs.Legs.{Leg};
ghost use Rattle.mmtel_leg.specs.Requests.{RequestPartsView, ack_of, cseq_text, request_numbered, request_of, to_text};
ghost use Rattle.mmtel_leg.specs.Readings.{callee_after, caller_after, five_of};
ghost use Rattle.mmtel_leg.specs.declared.dialogues.Dialogue.{Dialogue};

/// Whatever operations a leg undergoes, the CSeq numbers of its requests rise by one from the last one that it had at its beginning, as long as 64 bits suffice for them.
pub fn numbers_rise_by_one()
    ensures counted { (leg : Leg) (ops : List LegOperation) → leg.dialogue.local_cseq + length (requests leg ops) < 2 ^ 64 →
        IsCountedFrom leg.dialogue.local_cseq (requests leg ops) }
    ensures last { (leg : Leg) (ops : List LegOperation) → leg.dialogue.local_cseq + length (requests leg ops) < 2 ^ 64 →
        (after_operations leg ops).dialogue.local_cseq ≡ leg.dialogue.local_cseq + length (requests leg ops) }
{}

/// The ACK that follows an INVITE has that INVITE's number, whatever else was sent, received or swapped in between: of an INVITE that the server made in the dialog, and of the
/// one with which a callee's dialog began.
pub fn acks_have_their_invites_number()
    ensures made { (leg : Leg) (invite ack : RequestPartsView) (ops : List LegOperation) → list_all is_not_invite ops ≡ true →
        HaveOneNumber (request_of leg.dialogue (codes "INVITE") invite) (ack_of (after_operations (after_operation leg (SendsRequest (codes "INVITE") invite)) ops).dialogue ack) }
    ensures begun { (peer : Peer) (invite : Message Start) (n : ℕ) (meter : Option MeterView) (ack : RequestPartsView) (ops : List LegOperation) → number_in invite.lines ≡ Some n →
        list_all is_not_invite ops ≡ true → HasNumber n (ack_of (callee_after peer invite meter ops) ack) }
{}

/// The CSeq of what is built is parsed again as the number and the method, where the number is one of RFC 3261 (below 2^31, §8.1.1.5) and the method a token.
pub fn numbers_read_back()
    ensures request { (d : Dialogue) (method : List ℕ) (given : RequestPartsView) → d.local_cseq + 1 < 2 ^ 31 → IsToken method →
        ReadsAs (d.local_cseq + 1) method (request_of d method given) }
    ensures ack { (d : Dialogue) (given : RequestPartsView) → unwrap_or d.invite_cseq 0 < 2 ^ 31 → ReadsAs (unwrap_or d.invite_cseq 0) (codes "ACK") (ack_of d given) }
{}

/// The tags by which the other side finds its dialog (RFC 3261 §12): in what is built in a dialog, From is parsed with the server's tag and To with the other side's, whatever
/// operations there were since the dialog began, and whether it is a request or an ACK.
pub fn tags_read_back()
    ensures caller_from { (peer : Peer) (invite : Message Start) (tag : List ℕ) (meter : Option MeterView) (ops : List LegOperation)
        (number : ℕ) (method : List ℕ) (given : RequestPartsView)
        (to : NameAddr) → name_addr_of (field (codes "To") invite.lines) ≡ Some to → IsUntagged to → IsValue tag →
        tag_in (codes "From") (request_numbered (caller_after peer invite tag meter ops) number method given).lines ≡ tag }
    ensures caller_to { (peer : Peer) (invite : Message Start) (tag : List ℕ) (meter : Option MeterView) (ops : List LegOperation)
        (number : ℕ) (method : List ℕ) (given : RequestPartsView) →
        tag_in (codes "To") (request_numbered (caller_after peer invite tag meter ops) number method given).lines ≡ tag_in (codes "From") invite.lines }
    ensures callee_from { (peer : Peer) (invite : Message Start) (meter : Option MeterView) (ops : List LegOperation) (number : ℕ) (method : List ℕ) (given : RequestPartsView) →
        tag_in (codes "From") (request_numbered (callee_after peer invite meter ops) number method given).lines ≡ tag_in (codes "From") invite.lines }
    ensures callee_to { (peer : Peer) (invite : Message Start) (meter : Option MeterView) (ops : List LegOperation) (number : ℕ)
        (method : List ℕ) (given : RequestPartsView) (to : NameAddr) →
        name_addr_of (field (codes "To") invite.lines) ≡ Some to → IsUntagged to →
        ((callee_after peer invite meter ops).remote_tag ≡ []) ⊎ IsValue (callee_after peer invite meter ops).remote_tag →
        tag_in (codes "To") (request_numbered (callee_after peer invite meter ops) number method given).lines ≡ (callee_after peer invite meter ops).remote_tag }
    ensures tagged { (value : List ℕ) (n : NameAddr) (tag : List ℕ) → name_addr_of value ≡ Some n → IsValue tag →
        name_addr_of (tagged_value value tag) ≡ Some (record n { params = n.params ++ record { name = codes "tag"; value = Some tag } ∷ [] }) }
    ensures values { (name : List ℕ) (m : Message Start) → (tag_in name m.lines ≡ []) ⊎ IsValue (tag_in name m.lines) }
{}

/// What is built in a dialog has the five fields that each message has (RFC 3261 §8.1.1), and they are parsed as the values of the dialog and of the given parts. This holds
/// where From and To of the dialog are name-addrs and its Call-ID is not empty, the number is one of RFC 3261, method and branch are tokens, the server's address is one that is
/// sent and its port not 0, and the shown lines have no second line of a name that the dialog writes.
pub fn five_fields_read_back()
    ensures read { (d : Dialogue) (number : ℕ) (method : List ℕ) (given : RequestPartsView) (from to : NameAddr) → name_addr_of d.local ≡ Some from →
        name_addr_of (to_text d.side d.remote d.remote_tag) ≡ Some to → 0 < length d.call_id → number < 2 ^ 31 → IsToken method → IsToken given.branch →
        IsSource given.sip → 0 < given.sip.port → AreOthers given.shown → five_at (request_numbered d number method given).lines ≡ Some (five_of d number method given from to) }
{}

/// A dialog on the other side that has received no higher number than the leg's last one accepts each request of the leg, one after another: none is out of order.
pub fn requests_are_in_order()
    ensures received { (leg : Leg) (ops : List LegOperation) (other : Dialogue) → leg.dialogue.local_cseq < 2 ^ 64 → IsNotBelow other.remote_cseq (Some leg.dialogue.local_cseq) →
        ReceivesEach other (requests leg ops) }
{}

/// A refused request changes nothing of a leg, and the last number that was accepted never falls.
pub fn refusals_change_nothing()
    ensures refused { (leg : Leg) (request : Message Start) (busy : InFlight) (fault : DialogueFault) → receive_result leg.dialogue request busy ≡ Err fault →
        after_operation leg (ReceivesRequest request busy) ≡ leg }
    ensures last { (leg : Leg) (ops : List LegOperation) → IsNotBelow leg.dialogue.remote_cseq (after_operations leg ops).dialogue.remote_cseq }
{}

/// A request identifies its dialog in its lines: they are found by their names.
pub fn requests_name_their_dialog()
    ensures cseq { (d : Dialogue) (number : ℕ) (method : List ℕ) (given : RequestPartsView) →
        first_value (codes "CSeq") (request_numbered d number method given).lines ≡ Some (cseq_text number method) }
    ensures call_id { (d : Dialogue) (number : ℕ) (method : List ℕ) (given : RequestPartsView) →
        first_value (codes "Call-ID") (request_numbered d number method given).lines ≡ Some d.call_id }
    ensures from { (d : Dialogue) (number : ℕ) (method : List ℕ) (given : RequestPartsView) →
        first_value (codes "From") (request_numbered d number method given).lines ≡ Some d.local }
    ensures to { (d : Dialogue) (number : ℕ) (method : List ℕ) (given : RequestPartsView) →
        first_value (codes "To") (request_numbered d number method given).lines ≡ Some (to_text d.side d.remote d.remote_tag) }
{}

/// The last response of a callee decides, whatever it gave before: until the callee gives its tag, target and route set anew, its tag and the routes to it are those of that
/// response, also where these are empty, and its target is that of the response where it has one (RFC 3261 §12.1.2, §13.2.2.4).
pub fn the_last_response_decides()
    ensures tag { (peer : Peer) (invite : Message Start) (meter : Option MeterView) (before later : List LegOperation) (answer : Remote) → list_all is_of_confirmed later ≡ true →
        (callee_after peer invite meter (before ++ LearnsRemote answer ∷ later)).remote_tag ≡ answer.tag }
    ensures routes { (peer : Peer) (invite : Message Start) (meter : Option MeterView) (before later : List LegOperation) (answer : Remote) →
        list_all is_of_confirmed later ≡ true →
        (callee_after peer invite meter (before ++ LearnsRemote answer ∷ later)).routes ≡ answer.routes }
    ensures target { (peer : Peer) (invite : Message Start) (meter : Option MeterView) (before later : List LegOperation) (answer : Remote) →
        list_all is_of_confirmed later ≡ true →
        0 < length answer.target → (callee_after peer invite meter (before ++ LearnsRemote answer ∷ later)).target ≡ answer.target }
{}

/// No request that is received or sent, and no swap of meters, after a leg is confirmed changes its target or its routes.
pub fn the_route_stays()
    ensures target { (leg : Leg) (ops : List LegOperation) → list_all is_of_confirmed ops ≡ true → (after_operations leg ops).dialogue.target ≡ leg.dialogue.target }
    ensures routes { (leg : Leg) (ops : List LegOperation) → list_all is_of_confirmed ops ≡ true → (after_operations leg ops).dialogue.routes ≡ leg.dialogue.routes }
{}

/// Every meter that a leg was given, when it was made or later, is handed back by a swap or when the leg ends, in that order.
pub fn meters_come_back()
    ensures all { (leg : Leg) (ops : List LegOperation) → meters_handed_back leg ops ++ (after_operations leg ops).meter ∷ [] ≡ leg.meter ∷ meters_put_in ops }
{}
