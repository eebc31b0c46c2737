//! Theorems about reading, each as the contract of a function that does nothing.
ghost use Rattle.std.specs.Prelude.{◌≡◌, ◌≢◌, ◌≤◌, ◌<◌, ◌⊎◌, Bool, true, false, ℕ, List, [], ◌∷◌, ◌++◌, Some, Ok, length, codes, map};
ghost use Rattle.std.specs.List.{list_all};
ghost use Rattle.std.specs.Str.{bytes_eq, str_to_ascii_lowercase};
ghost use Rattle.mmtel_base.specs.Classes.{IsAll};
ghost use Rattle.mmtel_base.specs.Numbers.{number_of};
ghost use Rattle.mmtel_base.specs.Scanning.{without_trailing};
ghost use Rattle.mmtel_base.specs.declared.classes.Class.TheVariants.{Blank};
ghost use Rattle.mmtel_lex.specs.Grammar.{IsToken};
ghost use Rattle.mmtel_lex.specs.Params.{param_value};
ghost use Rattle.mmtel_lex.specs.Reading.{name_addr_of, uri_of};
ghost use Rattle.mmtel_lex.specs.declared.values.NameAddr.{NameAddr};
ghost use Rattle.mmtel_message.specs.Datagram.{datagram, text_of, IsWhole, AreApart, AreWhole, AreUnfolded};
ghost use Rattle.mmtel_message.specs.Entries.{are_entries};
ghost use Rattle.mmtel_message.specs.Fields.{only_value, first_part, via_at, cseq_at, five_at};
ghost use Rattle.mmtel_message.specs.Faults.{is_method, is_request, is_malformed, are_readable, is_one_readable, are_words};
ghost use Rattle.mmtel_message.specs.Headers.{header_line};
ghost use Rattle.mmtel_message.specs.Lines.{starts_blank, split};
ghost use Rattle.mmtel_message.specs.Message.{Line, Message, lines_named, first_value, line_texts, values_named, lines_with, lines_without};
ghost use Rattle.mmtel_message.specs.Names.{compact_forms, more_compact_forms, long_name};
ghost use Rattle.mmtel_message.specs.Guarantees.{IsOnly, IsOnePerLine, HasTag, HasCookie, HasContact, is_hops, are_cases};
ghost use Rattle.mmtel_message.specs.Reads.{read_result, after_start};
ghost use Rattle.mmtel_message.specs.Replies.{bare_reply, reply_with};
ghost use Rattle.mmtel_message.specs.Responses.{AddsNone, AreLinesWith, HasNoContact, IsSendable, IsUntagged, Reply, completed_lines, five_of_response, response, tag_of_response};
ghost use Rattle.mmtel_message.specs.Responses.{to_line, to_of_response};
ghost use Rattle.mmtel_message.specs.Starts.{start_at};
ghost use Rattle.mmtel_types.specs.declared.addrs.Addr.{Addr};
ghost use Rattle.mmtel_message.specs.Vias.{IsSource, completed_value, completed_via};
ghost use Rattle.mmtel_message.specs.declared.fields.Five.{Five};
ghost use Rattle.mmtel_message.specs.declared.fields.Via.{Via};
ghost use Rattle.mmtel_message.specs.declared.messages.Start.{Start};
ghost use Rattle.mmtel_message.specs.declared.messages.Start.TheVariants.{Request, Status};
ghost use Rattle.mmtel_message.specs.declared.values.Mode.{Mode};
ghost use Rattle.mmtel_message.specs.declared.values.Mode.TheVariants.{Plain, Words};

/// A datagram of lines of which none continues another is read from its lines: from the start line, from what each header line says, and from the body.
pub fn lines_decide()
    ensures lines { (first : List ℕ) (rs : List (List ℕ)) (body : List ℕ) → IsWhole first → AreWhole rs → AreUnfolded rs → length (datagram first rs body) ≤ 16384 →
        read_result (datagram first rs body) ≡ after_start (map header_line rs) body (start_at first) }
{}

/// Names that differ in case alone have the same spelling, unless the tables do not have them; a compact form is spelled in full; and a name that is spelled in full stays so.
pub fn case_does_not_matter()
    ensures case { (n m : List ℕ) → str_to_ascii_lowercase n ≡ str_to_ascii_lowercase m → (long_name n ≡ long_name m) ⊎ (long_name m ≡ m) }
    ensures compact { list_all (λ x. bytes_eq (long_name x.0) x.1) (compact_forms ++ more_compact_forms) ≡ true }
    ensures once { (n : List ℕ) → IsToken n → long_name (long_name n) ≡ long_name n }
{}

/// A line says the same in each spelling of its name, its compact form among them, and with any blanks around its colon and after its value.
pub fn spelling_does_not_matter()
    ensures line { (n m a b c v : List ℕ) → IsToken n → IsToken m → long_name n ≡ long_name m → IsAll Blank a → IsAll Blank b → IsAll Blank c →
        header_line (n ++ (a ++ (58 ∷ (b ++ (v ++ c))))) ≡ header_line (m ++ (58 ∷ v)) }
{}

/// Datagrams within the limit that differ in one line, which says the same in both, are read with the same result.
pub fn lines_of_equal_values()
    ensures reading { (first : List ℕ) (xs ys : List (List ℕ)) (r q body : List ℕ) → header_line r ≡ header_line q → IsWhole first → AreWhole (xs ++ r ∷ ys) →
        AreUnfolded (xs ++ r ∷ ys) → AreWhole (xs ++ q ∷ ys) → AreUnfolded (xs ++ q ∷ ys) → length (datagram first (xs ++ r ∷ ys) body) ≤ 16384 →
        length (datagram first (xs ++ q ∷ ys) body) ≤ 16384 → read_result (datagram first (xs ++ r ∷ ys) body) ≡ read_result (datagram first (xs ++ q ∷ ys) body) }
{}

/// Datagrams within the limit that differ in a fold in place of one SP between bytes of a line that are no blanks are read with the same result.
pub fn folds_do_not_matter()
    ensures reading { (first : List ℕ) (xs ys : List (List ℕ)) (x y body : List ℕ) → 0 < length x → starts_blank x ≡ false → without_trailing Blank x ≡ x → starts_blank y ≡ false →
        IsWhole first → AreWhole (xs ++ x ∷ (32 ∷ y) ∷ ys) → AreWhole (xs ++ (x ++ 32 ∷ y) ∷ ys) → length (datagram first (xs ++ x ∷ (32 ∷ y) ∷ ys) body) ≤ 16384 →
        length (datagram first (xs ++ (x ++ 32 ∷ y) ∷ ys) body) ≤ 16384 →
        read_result (datagram first (xs ++ x ∷ (32 ∷ y) ∷ ys) body) ≡ read_result (datagram first (xs ++ (x ++ 32 ∷ y) ∷ ys) body) }
{}

/// Bytes after the body of a message that has Content-Length do not matter, within the limit.
pub fn trailing_bytes_do_not_matter()
    ensures reading { (s x v : List ℕ) (m : Message Start) → read_result s ≡ Ok m → first_value (codes "Content-Length") m.lines ≡ Some v → length (s ++ x) ≤ 16384 →
        read_result (s ++ x) ≡ Ok m }
{}

/// The values of History-Info of a message that was read are entries (RFC 7044 §5), at most 32.
pub fn histories_are_readable()
    ensures entries { (b : List ℕ) (m : Message Start) → read_result b ≡ Ok m → are_entries (values_named Plain (codes "History-Info") m.lines) ≡ true }
    ensures few { (b : List ℕ) (m : Message Start) → read_result b ≡ Ok m → length (values_named Plain (codes "History-Info") m.lines) ≤ 32 }
{}

/// What is read of a name depends on the lines of that name alone.
pub fn other_names_do_not_matter()
    ensures first { (name : List ℕ) (ls ks : List (List ℕ × List ℕ)) → lines_named name ls ≡ lines_named name ks → first_value name ls ≡ first_value name ks }
    ensures only { (name : List ℕ) (ls ks : List (List ℕ × List ℕ)) → lines_named name ls ≡ lines_named name ks → only_value name ls ≡ only_value name ks }
    ensures values { (m : Mode) (name : List ℕ) (ls ks : List (List ℕ × List ℕ)) → lines_named name ls ≡ lines_named name ks → values_named m name ls ≡ values_named m name ks }
    ensures five { (ls ks : List (List ℕ × List ℕ)) → lines_named (codes "Via") ls ≡ lines_named (codes "Via") ks → lines_named (codes "From") ls ≡ lines_named (codes "From") ks →
        lines_named (codes "To") ls ≡ lines_named (codes "To") ks → lines_named (codes "Call-ID") ls ≡ lines_named (codes "Call-ID") ks →
        lines_named (codes "CSeq") ls ≡ lines_named (codes "CSeq") ks →
        five_at ls ≡ five_at ks }
{}

/// Another value of a name, or none, leaves the lines of each other name as they are: the value of a private place does not change what is read of another.
pub fn other_values_stay()
    ensures set { (name value other : List ℕ) (ls : List (List ℕ × List ℕ)) → str_to_ascii_lowercase name ≢ str_to_ascii_lowercase other →
        lines_named other (lines_with name value ls) ≡ lines_named other ls }
    ensures drop_all { (name other : List ℕ) (ls : List (List ℕ × List ℕ)) → str_to_ascii_lowercase name ≢ str_to_ascii_lowercase other →
        lines_named other (lines_without name ls) ≡ lines_named other ls }
{}

/// The lines that a head is split into, with a line end between two, are the head, and no line contains a line end.
pub fn lines_are_the_whole()
    ensures whole { (s : List ℕ) → text_of (split s) ≡ s }
    ensures apart { (s : List ℕ) → AreApart (split s) }
{}

/// Where the five fields are in lines that have them (RFC 3261 §8.1.1): each except Via on the only line of its name.
pub fn fields_are_on_lines()
    ensures from { (ls : List (List ℕ × List ℕ)) (five : Five) → five_at ls ≡ Some five → (v : List ℕ) × IsOnly (codes "From") ls v × (name_addr_of v ≡ Some five.from) }
    ensures to { (ls : List (List ℕ × List ℕ)) (five : Five) → five_at ls ≡ Some five → (v : List ℕ) × IsOnly (codes "To") ls v × (name_addr_of v ≡ Some five.to) }
    ensures call_id { (ls : List (List ℕ × List ℕ)) (five : Five) → five_at ls ≡ Some five → IsOnly (codes "Call-ID") ls five.call_id × (0 < length five.call_id) }
    ensures cseq { (ls : List (List ℕ × List ℕ)) (five : Five) → five_at ls ≡ Some five → (v : List ℕ) × IsOnly (codes "CSeq") ls v × (cseq_at v ≡ Some five.cseq) }
{}

/// The five fields of a message that was read exist (RFC 3261 §8.1.1), and its first Via value is the text of its first Via line.
pub fn fields_are_read()
    ensures five { (b : List ℕ) (m : Message Start) → read_result b ≡ Ok m → (five : Five) × (five_at m.lines ≡ Some five) }
    ensures via { (b : List ℕ) (m : Message Start) (five : Five) → read_result b ≡ Ok m → five_at m.lines ≡ Some five →
        (v : List ℕ) × (first_value (codes "Via") m.lines ≡ Some v) × (via_at v ≡ Some five.via) }
{}

/// A request that was read: CSeq has its method (RFC 3261 §8.1.1.5), From has a tag (§8.1.1.3),
/// the first Via branch begins with the magic cookie (§8.1.1.7), and the Request-URI is of the grammar or of another scheme (§8.2.2.1).
pub fn requests_are_sound()
    ensures method { (b : List ℕ) (m : Message Start) (five : Five) (method uri : List ℕ) → read_result b ≡ Ok m → m.start ≡ Request method uri → five_at m.lines ≡ Some five →
        five.cseq.method ≡ method }
    ensures tag { (b : List ℕ) (m : Message Start) (five : Five) → read_result b ≡ Ok m → is_request m.start ≡ true → five_at m.lines ≡ Some five → HasTag five.from }
    ensures branch { (b : List ℕ) (m : Message Start) (five : Five) → read_result b ≡ Ok m → is_request m.start ≡ true → five_at m.lines ≡ Some five → HasCookie five.via }
    ensures target { (b : List ℕ) (m : Message Start) (method uri : List ℕ) → read_result b ≡ Ok m → m.start ≡ Request method uri → is_malformed (uri_of uri) ≡ false }
{}

/// Max-Forwards of a request that was read is a number up to 255, and occurs once at most (RFC 3261 §20.22).
pub fn hops_are_numbers()
    ensures number { (b : List ℕ) (m : Message Start) → read_result b ≡ Ok m → is_request m.start ≡ true → list_all is_hops (line_texts (codes "Max-Forwards") m.lines) ≡ true }
    ensures once { (b : List ℕ) (m : Message Start) → read_result b ≡ Ok m → is_request m.start ≡ true → length (lines_named (codes "Max-Forwards") m.lines) ≤ 1 }
{}

/// An INVITE that was read has one Contact value, which is a name-addr and the text of the first Contact line (RFC 3261 §8.1.1.8).
pub fn an_invite_has_one_contact()
    ensures one { (b : List ℕ) (m : Message Start) → read_result b ≡ Ok m → is_method (codes "INVITE") m.start ≡ true →
        is_one_readable (values_named Plain (codes "Contact") m.lines) ≡ true }
    ensures first { (b : List ℕ) (m : Message Start) → read_result b ≡ Ok m → is_method (codes "INVITE") m.start ≡ true → HasContact m.lines }
{}

/// Addresses in a message that was read, a request or a response, are name-addrs:
/// the values of Route and Record-Route (RFC 3261 §20.34, §20.30), of P-Asserted-Identity (RFC 3325 §9.1),
/// of P-Served-User, with a session case that is originating or terminating (RFC 5502 §6), and of Refer-To (RFC 3515 §2.1).
pub fn addresses_are_readable()
    ensures route { (b : List ℕ) (m : Message Start) → read_result b ≡ Ok m → are_readable (values_named Plain (codes "Route") m.lines) ≡ true }
    ensures record_route { (b : List ℕ) (m : Message Start) → read_result b ≡ Ok m → are_readable (values_named Plain (codes "Record-Route") m.lines) ≡ true }
    ensures asserted { (b : List ℕ) (m : Message Start) → read_result b ≡ Ok m → are_readable (values_named Plain (codes "P-Asserted-Identity") m.lines) ≡ true }
    ensures served { (b : List ℕ) (m : Message Start) → read_result b ≡ Ok m → are_cases (line_texts (codes "P-Served-User") m.lines) ≡ true }
    ensures refer { (b : List ℕ) (m : Message Start) → read_result b ≡ Ok m → are_readable (line_texts (codes "Refer-To") m.lines) ≡ true }
{}

/// The words of Privacy in a message that was read are tokens (RFC 3323 §4.2).
pub fn privacy_has_words()
    ensures words { (b : List ℕ) (m : Message Start) → read_result b ≡ Ok m → are_words (values_named Words (codes "Privacy") m.lines) ≡ true }
{}

/// The values of a listed name in a message that was read are one per line.
pub fn listed_values_are_on_own_lines()
    ensures via { (b : List ℕ) (m : Message Start) → read_result b ≡ Ok m → IsOnePerLine (codes "Via") m.lines }
    ensures route { (b : List ℕ) (m : Message Start) → read_result b ≡ Ok m → IsOnePerLine (codes "Route") m.lines }
    ensures record_route { (b : List ℕ) (m : Message Start) → read_result b ≡ Ok m → IsOnePerLine (codes "Record-Route") m.lines }
    ensures contact { (b : List ℕ) (m : Message Start) → read_result b ≡ Ok m → IsOnePerLine (codes "Contact") m.lines }
    ensures asserted { (b : List ℕ) (m : Message Start) → read_result b ≡ Ok m → IsOnePerLine (codes "P-Asserted-Identity") m.lines }
    ensures history { (b : List ℕ) (m : Message Start) → read_result b ≡ Ok m → IsOnePerLine (codes "History-Info") m.lines }
    ensures supported { (b : List ℕ) (m : Message Start) → read_result b ≡ Ok m → IsOnePerLine (codes "Supported") m.lines }
    ensures require { (b : List ℕ) (m : Message Start) → read_result b ≡ Ok m → IsOnePerLine (codes "Require") m.lines }
{}

/// A response that was read has a code of 100 to 699 (RFC 3261 §7.2).
pub fn codes_are_in_range()
    ensures code { (b : List ℕ) (m : Message Start) (code : ℕ) (phrase : List ℕ) → read_result b ≡ Ok m → m.start ≡ Status code phrase → (100 ≤ code) × (code ≤ 699) }
{}

/// Content-Length of a message that was read is the length of its body, where the field is present (RFC 3261 §20.14).
pub fn bodies_have_their_stated_length()
    ensures length { (b : List ℕ) (m : Message Start) (v : List ℕ) → read_result b ≡ Ok m → first_value (codes "Content-Length") m.lines ≡ Some v →
        number_of (length m.body) v ≡ Some (length m.body) }
{}

/// What holds for the text of each line of a name holds for the first.
pub fn the_first_is_one_of_them()
    ensures text { (p : List ℕ → Bool) (name v : List ℕ) (ls : List (List ℕ × List ℕ)) → list_all p (line_texts name ls) ≡ true → first_value name ls ≡ Some v → p v ≡ true }
{}

/// A Via value that is completed is one Via value, which is read as the original Via with the port and the address that the request came from (RFC 3261 §18.2.1, RFC 3581 §4).
/// Its branch and its sent-by stay, so that the response belongs to the same transaction (RFC 3261 §17.1.3).
pub fn completed_vias_name_their_transaction()
    ensures read { (source : Addr) (value : List ℕ) (via : Via) → IsSource source → via_at value ≡ Some via →
        via_at (completed_value source value) ≡ Some (completed_via source via) }
    ensures one { (source : Addr) (value : List ℕ) (via : Via) → IsSource source → via_at value ≡ Some via →
        first_part (completed_value source value) ≡ completed_value source value }
    ensures branch { (source : Addr) (via : Via) → param_value (codes "branch") (completed_via source via).params ≡ param_value (codes "branch") via.params }
    ensures sent_by { (source : Addr) (via : Via) → (completed_via source via).sent_by ≡ via.sent_by }
{}

/// A response has the Via lines of its request, the first completed where a source is given, and From, Call-ID and CSeq as received (RFC 3261 §8.2.6.2); To has the
/// server's tag where it had none.
pub fn responses_copy_request_fields()
    ensures via { (start : Start) (ls : List Line) (r : Reply) → AddsNone r →
        lines_named (codes "Via") (response start ls r).lines ≡ completed_lines r.source (lines_named (codes "Via") ls) }
    ensures from { (start : Start) (ls : List Line) (r : Reply) → AddsNone r → lines_named (codes "From") (response start ls r).lines ≡ lines_named (codes "From") ls }
    ensures to { (start : Start) (ls : List Line) (r : Reply) → AddsNone r →
        lines_named (codes "To") (response start ls r).lines ≡ map (to_line (tag_of_response r.code r.tag)) (lines_named (codes "To") ls) }
    ensures call_id { (start : Start) (ls : List Line) (r : Reply) → AddsNone r → lines_named (codes "Call-ID") (response start ls r).lines ≡ lines_named (codes "Call-ID") ls }
    ensures cseq { (start : Start) (ls : List Line) (r : Reply) → AddsNone r → lines_named (codes "CSeq") (response start ls r).lines ≡ lines_named (codes "CSeq") ls }
{}

/// The five fields of a response are read (RFC 3261 §8.1.1): those of its request, Via completed and To with the tag. That tag is read back where the request had none, and
/// otherwise the request's own.
pub fn responses_have_the_fields()
    ensures five { (start : Start) (ls : List Line) (r : Reply) (five : Five) → IsSendable r → AreLinesWith five ls →
        five_at (response start ls r).lines ≡ Some (five_of_response r five) }
    ensures tag { (b : ℕ) (tag : List ℕ) (n : NameAddr) → IsUntagged n → param_value (codes "tag") (to_of_response (b ∷ tag) n).params ≡ Some (b ∷ tag) }
    ensures kept { (tag : List ℕ) (n : NameAddr) (given : List ℕ) → param_value (codes "tag") n.params ≡ Some given → to_of_response tag n ≡ n }
{}

/// A response without a Contact of the server is the same for the request and for the lines of a reply alone: so the reply that a fault of reading carries is
/// completed from its own lines. From 300 on a response has no Contact of the server.
pub fn replies_can_be_completed()
    ensures completed { (a b : Start) (code : ℕ) (phrase : List ℕ) (ls : List Line) (r : Reply) → HasNoContact r.code a → HasNoContact r.code b →
        response a (reply_with code phrase ls).lines r ≡ response b ls r }
    ensures bare { (start : Start) (code : ℕ) (phrase : List ℕ) (ls : List Line) → HasNoContact code start →
        response start ls (bare_reply code phrase) ≡ reply_with code phrase ls }
    ensures late { (code : ℕ) (start : Start) → 300 ≤ code → HasNoContact code start }
{}
