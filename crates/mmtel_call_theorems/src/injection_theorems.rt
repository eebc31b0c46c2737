//! What a call sends. These are theorems, without code.
ghost use Rattle.std.specs.Prelude.{◌≡◌, ◌+◌, ◌∷◌, ◌++◌, ℕ, List, [], Some, drop, map, take};
ghost use Rattle.mmtel_message.specs.Lines.{first_break, split};
ghost use Rattle.mmtel_message.specs.Message.{Message};
ghost use Rattle.mmtel_message.specs.Texts.{message_text, start_text};
ghost use Rattle.mmtel_message.specs.declared.lines.Break.TheVariants.{Head};
ghost use Rattle.mmtel_message.specs.declared.messages.Start.{Start};
ghost use Rattle.mmtel_leg.specs.Requests.{RequestPartsView, request_numbered};
ghost use Rattle.mmtel_leg.specs.declared.dialogues.Dialogue.{Dialogue};
ghost use Rattle.mmtel_message.specs.Message.{Line};
ghost use Rattle.mmtel_message.specs.Responses.{Reply, response};
ghost use Rattle.mmtel_call_theorems.specs.NoInjection.Messages.{HasNoInjection, HaveNoInjection, LinesHaveNoInjection, MessageHasNoInjection, written_line};
ghost use Rattle.mmtel_call_theorems.specs.NoInjection.ReadMessages.{ReadingHasNoInjection};
ghost use Rattle.mmtel_call_theorems.specs.NoInjection.Traces.{EmitsHaveNoInjection, EmitsHaveOwnFields, FinishEmitsHaveNoInjection};
ghost use Rattle.mmtel_call_theorems.specs.NoInjection.CopiedLines.{CopiedLinesHaveNoInjection, ParsedEntriesHaveNoInjection};
ghost use Rattle.mmtel_call_theorems.specs.NoInjection.CallState.{DialogueHasNoInjection, ReplyHasNoInjection, RequestPartsHaveNoInjection};

/// The text of a clean message, split at its line ends, is its start line, its header fields, an empty line and its body, and nothing else (RFC 3261 §7): none of these lines has a
/// byte 0, CR or LF.
/// A reader finds the end of the head where the body begins, and the head is those lines.
pub fn no_injection_keeps_own_fields()
    ensures split { (m : Message Start) → MessageHasNoInjection m → split (message_text m) ≡ start_text m.start ∷ (map written_line m.lines ++ [] ∷ split m.body) }
    ensures no_injection { (m : Message Start) → MessageHasNoInjection m → HaveNoInjection (start_text m.start ∷ map written_line m.lines) }
    ensures head { (m : Message Start) → MessageHasNoInjection m →
        (n : ℕ) × (first_break Head (message_text m) ≡ Some n) × (split (take n (message_text m)) ≡ start_text m.start ∷ map written_line m.lines) ×
        (drop (n + 4) (message_text m) ≡ m.body) }
{}

/// What is built of clean parts is clean: each request of a dialog, and each response, whatever else is in the request's header fields (RFC 3261 §8.1.1, §8.2.6).
pub fn building_adds_no_injection()
    ensures request { (d : Dialogue) (number : ℕ) (method : List ℕ) (given : RequestPartsView) → DialogueHasNoInjection d →
        HasNoInjection method → RequestPartsHaveNoInjection given →
        MessageHasNoInjection (request_numbered d number method given) }
    ensures response { (start : Start) (ls : List Line) (r : Reply) → LinesHaveNoInjection ls → ReplyHasNoInjection r → MessageHasNoInjection (response start ls r) }
{}

/// What is relayed of a clean message is clean: the header fields that the header table copies from it (RFC 3325 §5, RFC 3323 §5.1), and its entries of History-Info (RFC 7044 §5).
pub fn relaying_adds_no_injection()
    ensures copied { CopiedLinesHaveNoInjection }
    ensures entries { ParsedEntriesHaveNoInjection }
{}

/// Whatever a call receives, each message that it sends is clean, and the text of it has its start line, its header fields and its body, and nothing else: so nobody injects a line
/// into a message of another. This holds if the header fields and phrases that are received are clean, as those of each message that was read are, and the Request-URI of the
/// INVITE that opens the call; and if the records' URIs, the home domain and the text of tokens are clean. An ACK of a 2xx has no header fields but those that the header table
/// copies from an ACK that the call received on the other side, in the dialog that was there then (RFC 3261 §13.2.2.4).
pub fn calls_send_no_injection()
    ensures no_injection { EmitsHaveNoInjection }
    ensures lines { EmitsHaveOwnFields }
    ensures finished { FinishEmitsHaveNoInjection }
{}

/// What was read is clean: the header fields of a message that `read` returned, which is canonical, and its phrase; and a URI of the grammar, as it was read and as it is printed
/// (RFC 3261 §7.3, §25.1).
pub fn reading_leaves_no_injection()
    ensures law { ReadingHasNoInjection }
{}
