//! Theorems about what is sent: each is the contract of a function that does nothing.
ghost use Rattle.std.specs.Prelude.{◌≡◌, ℕ, List, Some, codes, false};
ghost use Rattle.mmtel_leg.specs.Requests.{RequestPartsView, request_numbered};
ghost use Rattle.mmtel_leg.specs.declared.dialogues.Dialogue.{Dialogue};
ghost use Rattle.mmtel_lex.specs.Grammar.{IsToken};
ghost use Rattle.mmtel_lex.specs.declared.values.NameAddr.{NameAddr};
ghost use Rattle.mmtel_message.specs.Message.{Line};
ghost use Rattle.mmtel_message.specs.Responses.{AddsNone, AreLinesWith, IsSendable, Reply, five_of_response, response};
ghost use Rattle.mmtel_message.specs.declared.fields.Five.{Five};
ghost use Rattle.mmtel_message.specs.declared.messages.Start.{Start};
ghost use Rattle.mmtel_message.specs.declared.messages.Start.TheVariants.{Status};
ghost use Rattle.mmtel_trust.specs.PrivateFields.{PrivateFields, masked_lines};
ghost use Rattle.mmtel_compose.specs.Requests.{cancel_of};
ghost use Rattle.mmtel_transaction.specs.Heads.{head_of, head_with};
ghost use Rattle.mmtel_output.specs.Heads.{CanBeSent, request_head};

use mmtel_leg::five_fields_read_back;
use mmtel_message::theorems::{responses_copy_request_fields, responses_have_the_fields};
use mmtel_transaction::theorems::heads_rest_on_five_names;
use mmtel_trust::{masking_keeps_the_rest, masks_leave_the_route};

/// The head of a request that is sent is that of its dialog, number, method and branch: by it the transactions match the response (RFC 3261 §17.1.3).
pub fn requests_have_heads()
    ensures head { (d : Dialogue) (number : ℕ) (method : List ℕ) (given : RequestPartsView) (from to : NameAddr) → IsToken method → CanBeSent d number given from to →
        head_of (request_numbered d number method given) ≡ request_head d number method given.sip given.branch from to }
{
    five_fields_read_back();
}

/// The head of a CANCEL is its INVITE's except for the method, so that it identifies the INVITE's server transaction at the other side (RFC 3261 §9.2).
pub fn cancels_have_heads()
    ensures cancel { (d : Dialogue) (number : ℕ) (given : RequestPartsView) (from to : NameAddr) → CanBeSent d number given from to →
        head_of (cancel_of d number given.sip given.branch) ≡ record (head_of (request_numbered d number (codes "INVITE") given)) { method = codes "CANCEL" } }
{
    requests_have_heads();
}

/// The head of a response that is sent is read from its status and from its request's five fields, Via completed and To with the tag.
pub fn responses_have_heads()
    ensures head { (start : Start) (ls : List Line) (r : Reply) (five : Five) → IsSendable r → AreLinesWith five ls →
        head_of (response start ls r) ≡ head_with (Status r.code r.phrase) (Some (five_of_response r five)) }
{
    responses_have_the_fields();
}

/// The head of a response does not depend on what is private of its request: whichever the private places of a request are, the response to the masked one has the same head as
/// the response to it.
pub fn masked_requests_have_one_head()
    ensures head { (p : PrivateFields) (start : Start) (ls : List Line) (r : Reply) → p.to ≡ false → AddsNone r →
        head_of (response start (masked_lines p ls) r) ≡ head_of (response start ls r) }
{
    heads_rest_on_five_names();
    masking_keeps_the_rest();
    masks_leave_the_route();
    responses_copy_request_fields();
}
