//! Theorems about the definitions that contracts cite: each is the contract of a function that does nothing.
ghost use Rattle.std.specs.Prelude.{◌≡◌, ◌++◌, ◌↔◌, ◌≤◌, true, false, List, ℕ, Bool, Option, Some, None, length, filter, map, codes};
ghost use Rattle.std.specs.Option.{option_map};
ghost use Rattle.mmtel_lex.specs.Reading.{name_addr_of};
ghost use Rattle.mmtel_message.specs.Message.{Line, Message, first_value, has_line, lines_named, lines_without, values_named};
ghost use Rattle.mmtel_message.specs.declared.messages.Start.{Start};
ghost use Rattle.mmtel_message.specs.declared.values.Mode.{Mode};
ghost use Rattle.mmtel_trust.specs.ParsedMessage.{ParsedMessage, tag_of, parsed_message};
ghost use Rattle.mmtel_trust.specs.Kinds.{kind_of};
ghost use Rattle.mmtel_trust.specs.PrivateFields.{Entries, PrivateFields, hide_if, only_entries, keeps_values, keeps_lines, masked_message, masked_lines, with_value};
ghost use Rattle.mmtel_trust.specs.MaskedMessages.{DecideTheSame, Restriction, hide, mask, public_part};
ghost use Rattle.mmtel_trust.specs.Members.{IsIn};
ghost use Rattle.mmtel_trust.specs.HeaderTable.{passed_lines, attempt_from};
ghost use Rattle.mmtel_trust.specs.Peers.{begins_with, longest, matches_number};
ghost use Rattle.mmtel_trust.specs.Privacy.{wants};
ghost use Rattle.mmtel_trust.specs.declared.accounts.AccountIdentity.{AccountIdentity};
ghost use Rattle.mmtel_trust.specs.declared.known_peers.Route.{Route};
ghost use Rattle.mmtel_trust.specs.declared.header_table.Facing.{Facing};

/// A text begins with its prefixes and with nothing else.
pub fn prefixes_begin_their_text()
    ensures front { (s p : List ℕ) → begins_with s p ≡ true → (rest : List ℕ) × (s ≡ p ++ rest) }
    ensures begins { (p rest : List ℕ) → begins_with (p ++ rest) p ≡ true }
{}

/// The route of a number is that of a prefix of the number, no route has a longer prefix of it, and there is none where no route has a prefix of it.
pub fn longest_prefix_is_chosen()
    ensures leads { (number : List ℕ) (rs : List Route) (r : Route) → longest (filter (matches_number number) rs) ≡ Some r → matches_number number r ≡ true }
    ensures there { (number : List ℕ) (rs : List Route) (r : Route) → longest (filter (matches_number number) rs) ≡ Some r → IsIn r rs }
    ensures longest { (number : List ℕ) (rs : List Route) (r s : Route) → longest (filter (matches_number number) rs) ≡ Some r → IsIn s rs → matches_number number s ≡ true →
        length s.name ≤ length r.name }
    ensures none { (number : List ℕ) (rs : List Route) (s : Route) → longest (filter (matches_number number) rs) ≡ None → IsIn s rs → matches_number number s ≡ false }
{}

/// What an untrusted peer is shown of a message whose sender is restricted does not depend on what is private in it, whichever places are private. Where only entries of
/// History-Info are private, what any peer is shown by the header table does not depend on them, restricted or not.
pub fn masked_shows_the_same()
    ensures lines { (p : PrivateFields) (f : Facing) (history ls : List Line) → f.restricted ≡ true →
        passed_lines f false history (masked_lines p ls) ≡ passed_lines f false history ls }
    ensures from { (p : PrivateFields) (tag : List ℕ) (ls : List Line) → attempt_from true tag (masked_lines p ls) ≡ attempt_from true tag ls }
    ensures entries { (es : Entries) (f : Facing) (to_trusted : Bool) (history ls : List Line) →
        passed_lines f to_trusted history (masked_lines (only_entries es) ls) ≡ passed_lines f to_trusted history ls }
    ensures entries_from { (es : Entries) (restricted : Bool) (tag : List ℕ) (ls : List Line) →
        attempt_from restricted tag (masked_lines (only_entries es) ls) ≡ attempt_from restricted tag ls }
{}

/// Header fields of restricted messages that are equal without their private places, whichever these are, show the same to an untrusted peer, and header fields that are equal
/// without their private entries of History-Info show the same to any peer.
pub fn equal_masks_show_the_same()
    ensures lines { (p q : PrivateFields) (f : Facing) (history ls ms : List Line) → f.restricted ≡ true → masked_lines p ls ≡ masked_lines q ms →
        passed_lines f false history ls ≡ passed_lines f false history ms }
    ensures entries { (es other : Entries) (f : Facing) (to_trusted : Bool) (history ls ms : List Line) → masked_lines (only_entries es) ls ≡ masked_lines (only_entries other) ms →
        passed_lines f to_trusted history ls ≡ passed_lines f to_trusted history ms }
{}

/// A masked message has no private places: masking it once more changes neither the message, nor its header fields, nor what was read of it.
pub fn masking_is_once()
    ensures message { (p : PrivateFields) (m : Message Start) → masked_message p (masked_message p m) ≡ masked_message p m }
    ensures lines { (p : PrivateFields) (ls : List Line) → masked_lines p (masked_lines p ls) ≡ masked_lines p ls }
    ensures received { (p : PrivateFields) (m : ParsedMessage) → hide p (hide p m) ≡ hide p m }
{}

/// Masking does not change what is read of header fields of other names, the tags, the start line and the body.
pub fn masking_keeps_the_rest()
    ensures lines { (p : PrivateFields) (name : List ℕ) (ls : List Line) → keeps_values p (kind_of name) ≡ true → lines_named name (masked_lines p ls) ≡ lines_named name ls }
    ensures first { (p : PrivateFields) (name : List ℕ) (ls : List Line) → keeps_values p (kind_of name) ≡ true → first_value name (masked_lines p ls) ≡ first_value name ls }
    ensures values { (p : PrivateFields) (m : Mode) (name : List ℕ) (ls : List Line) → keeps_values p (kind_of name) ≡ true →
        values_named m name (masked_lines p ls) ≡ values_named m name ls }
    ensures words { (p : PrivateFields) (ls : List Line) → wants (masked_lines p ls) ≡ wants ls }
    ensures from_tag { (p : PrivateFields) (ls : List Line) → tag_of (first_value (codes "From") (masked_lines p ls)) ≡ tag_of (first_value (codes "From") ls) }
    ensures to_tag { (p : PrivateFields) (ls : List Line) → tag_of (first_value (codes "To") (masked_lines p ls)) ≡ tag_of (first_value (codes "To") ls) }
    ensures start { (p : PrivateFields) (m : Message Start) → (masked_message p m).start ≡ m.start }
    ensures body { (p : PrivateFields) (m : Message Start) → (masked_message p m).body ≡ m.body }
{}

/// Header fields that are chosen by name alone are the same whether chosen before or after masking, and a name whose fields stay has fields before and after.
pub fn masks_see_no_names()
    ensures chosen { (p : PrivateFields) (q : Line → Bool) → ((n v w : List ℕ) → q (n, v) ≡ q (n, w)) → (ls : List Line) →
        filter q (masked_lines p ls) ≡ masked_lines p (filter q ls) }
    ensures named { (p : PrivateFields) (name : List ℕ) (ls : List Line) → lines_named name (masked_lines p ls) ≡ masked_lines p (lines_named name ls) }
    ensures dropped { (p : PrivateFields) (name : List ℕ) (ls : List Line) → lines_without name (masked_lines p ls) ≡ masked_lines p (lines_without name ls) }
    ensures there { (p : PrivateFields) (name : List ℕ) (ls : List Line) → keeps_lines p (kind_of name) ≡ true → has_line name (masked_lines p ls) ≡ has_line name ls }
{}

/// Whatever is private, the header fields that determine a message's route, its transaction and its extensions stay; those of From and To stay in number and order, and each
/// keeps its parameters, its tag among them (RFC 3261 §8.1.1, §16.6, §19.3).
pub fn masks_leave_the_route()
    ensures via { (p : PrivateFields) (ls : List Line) → lines_named (codes "Via") (masked_lines p ls) ≡ lines_named (codes "Via") ls }
    ensures call_id { (p : PrivateFields) (ls : List Line) → lines_named (codes "Call-ID") (masked_lines p ls) ≡ lines_named (codes "Call-ID") ls }
    ensures cseq { (p : PrivateFields) (ls : List Line) → lines_named (codes "CSeq") (masked_lines p ls) ≡ lines_named (codes "CSeq") ls }
    ensures hops { (p : PrivateFields) (ls : List Line) → lines_named (codes "Max-Forwards") (masked_lines p ls) ≡ lines_named (codes "Max-Forwards") ls }
    ensures route { (p : PrivateFields) (ls : List Line) → lines_named (codes "Route") (masked_lines p ls) ≡ lines_named (codes "Route") ls }
    ensures record_route { (p : PrivateFields) (ls : List Line) → lines_named (codes "Record-Route") (masked_lines p ls) ≡ lines_named (codes "Record-Route") ls }
    ensures required { (p : PrivateFields) (ls : List Line) → lines_named (codes "Require") (masked_lines p ls) ≡ lines_named (codes "Require") ls }
    ensures supported { (p : PrivateFields) (ls : List Line) → lines_named (codes "Supported") (masked_lines p ls) ≡ lines_named (codes "Supported") ls }
    ensures from { (p : PrivateFields) (ls : List Line) → lines_named (codes "From") (masked_lines p ls) ≡ map (with_value (hide_if p.from)) (lines_named (codes "From") ls) }
    ensures to { (p : PrivateFields) (ls : List Line) → lines_named (codes "To") (masked_lines p ls) ≡ map (with_value (hide_if p.to)) (lines_named (codes "To") ls) }
    ensures params { (b : Bool) (v : List ℕ) → option_map (λ n. n.params) (name_addr_of (hide_if b v)) ≡ option_map (λ n. n.params) (name_addr_of v) }
    ensures tag { (b : Bool) (v : Option (List ℕ)) → tag_of (option_map (hide_if b) v) ≡ tag_of v }
{}

/// What is read of a masked message is what was read of the message, hidden: each field that is never private stays, whatever the private places are, and so messages that are
/// equal when masked are equal in these fields.
pub fn masks_leave_the_rest()
    ensures received { (p : PrivateFields) (trusted : Bool) (m : Message Start) → parsed_message trusted (masked_message p m) ≡ hide p (parsed_message trusted m) }
    ensures public { (p : PrivateFields) (trusted : Bool) (m : Message Start) → public_part (parsed_message trusted (masked_message p m)) ≡ public_part (parsed_message trusted m) }
    ensures equivalent { (p q : PrivateFields) (trusted : Bool) (m n : Message Start) → masked_message p m ≡ masked_message q n →
        public_part (parsed_message trusted m) ≡ public_part (parsed_message trusted n) }
{}

/// For two messages with equal masks the decisions are the same, and they show the same: to an untrusted peer where the caller is restricted, and to any peer where it is not.
/// The accounts may be different ones.
pub fn equal_masks_decide_the_same()
    ensures equivalent { (restricts : Restriction) (accounts others : List AccountIdentity) (m n : ParsedMessage) → mask restricts accounts m ≡ mask restricts others n →
        DecideTheSame restricts accounts others m n }
{}
