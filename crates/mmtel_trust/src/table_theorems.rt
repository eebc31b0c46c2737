//! Theorems about the header table and the lines of History-Info: each is the contract of a function that does nothing.
ghost use Rattle.std.specs.Prelude.{◌≡◌, true, false, List, [], ℕ, Bool, codes};
ghost use Rattle.mmtel_history.specs.HistoryInfo.{masked_list};
ghost use Rattle.mmtel_history.specs.declared.entries.Entry.{Entry};
ghost use Rattle.mmtel_message.specs.Message.{Line, Message, lines_named};
ghost use Rattle.mmtel_message.specs.declared.messages.Start.{Start};
ghost use Rattle.mmtel_trust.specs.Kinds.{is_own_field};
ghost use Rattle.mmtel_trust.specs.PrivateFields.{PrivateFields, masked_message};
ghost use Rattle.mmtel_trust.specs.HeaderTable.{passed_lines, history_lines, carried_history, shown_lines};
ghost use Rattle.mmtel_trust.specs.declared.header_table.Facing.{Facing};

/// Of the header fields that the server writes itself (Via, Route, Record-Route, Max-Forwards, From, To, Call-ID, CSeq, Contact and Content-Length) the header table passes none,
/// whatever the message has; nor does it pass the message's own History-Info.
pub fn own_fields_are_not_passed()
    ensures passes_none { (f : Facing) (to_trusted : Bool) (name : List ℕ) (history ls : List Line) → is_own_field name ≡ true → lines_named name history ≡ [] →
        lines_named name (passed_lines f to_trusted history ls) ≡ [] }
    ensures entries { (name : List ℕ) (mask_all to_trusted : Bool) (h : List Entry) → is_own_field name ≡ true → lines_named name (history_lines mask_all to_trusted h) ≡ [] }
    ensures shown { (f : Facing) (to_trusted : Bool) (name : List ℕ) (h : List Entry) (start : Start) (ls : List Line) → is_own_field name ≡ true →
        lines_named name (shown_lines f to_trusted h start ls) ≡ [] }
    ensures history { (f : Facing) (to_trusted : Bool) (h : List Entry) (start : Start) (ls : List Line) →
        lines_named (codes "History-Info") (shown_lines f to_trusted h start ls) ≡ carried_history f to_trusted h start }
{}

/// Lists that are equal when masked show the same to an untrusted peer, and so do restricted messages that are equal without their private places and have such lists.
pub fn masked_histories_show_the_same()
    ensures entries { (mask_all : Bool) (h k : List Entry) → masked_list mask_all h ≡ masked_list mask_all k → history_lines mask_all false h ≡ history_lines mask_all false k }
    ensures shown { (f : Facing) (h k : List Entry) (start : Start) (ls : List Line) → masked_list f.mask_all h ≡ masked_list f.mask_all k →
        shown_lines f false h start ls ≡ shown_lines f false k start ls }
    ensures messages { (p : PrivateFields) (f : Facing) (h k : List Entry) (m n : Message Start) → f.restricted ≡ true → masked_message p m ≡ masked_message p n →
        masked_list f.mask_all h ≡ masked_list f.mask_all k → shown_lines f false h m.start m.lines ≡ shown_lines f false k n.start n.lines }
{}
