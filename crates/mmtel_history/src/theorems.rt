//! Theorems about History-Info, each as the contract of a function that does nothing.
ghost use Rattle.std.specs.Prelude.{◌≡◌, ◌≤◌, ◌+◌, ℕ, List, Bool, true, false, None, Ok, Err, length, codes, is_some, filter, map, not};
ghost use Rattle.std.specs.Option.{option_map};
ghost use Rattle.mmtel_message.specs.Entries.{is_entry, are_entries};
ghost use Rattle.mmtel_message.specs.Message.{Message, values_named};
ghost use Rattle.mmtel_message.specs.Reads.{read_result};
ghost use Rattle.mmtel_message.specs.declared.messages.Start.{Start};
ghost use Rattle.mmtel_message.specs.declared.values.Mode.TheVariants.{Plain};
ghost use Rattle.mmtel_lex.specs.UriParts.{user_part, header_parts, uri_params};
ghost use Rattle.mmtel_history.specs.EntryUri.{cause_of, is_cause, has_cause, is_marked, without_cause};
ghost use Rattle.mmtel_history.specs.HistoryInfo.{entry_of, entry_text, entries_of, entries_result, list_marked_at};
ghost use Rattle.mmtel_history.specs.HistoryInfo.{list_after_diversion, history_for_caller, diversions_in, diversions_so_far};
ghost use Rattle.mmtel_history.specs.HistoryInfo.{masked_entry, masked_list, written_entry, is_empty, Diversion, list_after_diversions, AreReadable};
ghost use Rattle.mmtel_history.specs.MaskedValues.{masked_value_text, is_marked_value, seen_value};
ghost use Rattle.mmtel_history.specs.declared.entries.Entry.{Entry};

use mmtel_message::theorems::histories_are_readable;

/// What is an entry for the reader of messages is one here, and the values of History-Info of each message that is read are read.
pub fn values_are_readable()
    ensures entry { (v : List ℕ) → is_some (entry_of v) ≡ is_entry v }
    ensures entries { (vs : List (List ℕ)) → are_entries vs ≡ true → length vs ≤ 32 → entries_result vs ≡ Ok (entries_of vs) }
    ensures messages { (b : List ℕ) (m : Message Start) → read_result b ≡ Ok m →
        entries_result (values_named Plain (codes "History-Info") m.lines) ≡ Ok (entries_of (values_named Plain (codes "History-Info") m.lines)) }
{
    histories_are_readable();
}

/// What a URI is without its causes: the parameters that are no causes, and all else as it was. One that has no cause stays, and a second removal changes nothing.
pub fn causes_are_removed()
    ensures params { (u : List ℕ) → uri_params (without_cause u) ≡ filter (λ p. not (is_cause p)) (uri_params u) }
    ensures user { (u : List ℕ) → user_part (without_cause u) ≡ user_part u }
    ensures headers { (u : List ℕ) → header_parts (without_cause u) ≡ header_parts u }
    ensures mark { (u : List ℕ) → is_marked (without_cause u) ≡ is_marked u }
    ensures plain { (u : List ℕ) → has_cause u ≡ false → without_cause u ≡ u }
    ensures once { (u : List ℕ) → without_cause (without_cause u) ≡ without_cause u }
{}

/// The masked form of a received value says of its entry what the masked entry says, and masking a second time changes nothing.
pub fn values_are_masked()
    ensures entry { (v : List ℕ) → entry_of (masked_value_text v) ≡ option_map (masked_entry true) (entry_of v) }
    ensures once { (v : List ℕ) → masked_value_text (masked_value_text v) ≡ masked_value_text v }
    // Index and cause stay.
    ensures index { (v : List ℕ) → option_map (λ e. e.index) (entry_of (masked_value_text v)) ≡ option_map (λ e. e.index) (entry_of v) }
    ensures cause { (v : List ℕ) → option_map (λ e. e.cause) (entry_of (masked_value_text v)) ≡ option_map (λ e. e.cause) (entry_of v) }
    // It no longer requests to be hidden.
    ensures shown { (v : List ℕ) → is_marked_value (masked_value_text v) ≡ false }
    // The list of the values as they may be shown is the masked list of the values, and where these cannot be read, those cannot, at the same place.
    ensures entries { (all : Bool) (vs : List (List ℕ)) → entries_of (map (seen_value all) vs) ≡ masked_list all (entries_of vs) }
    ensures read { (all : Bool) (vs : List (List ℕ)) (h : List Entry) → entries_result vs ≡ Ok h → entries_result (map (seen_value all) vs) ≡ Ok (masked_list all h) }
    ensures refused { (all : Bool) (vs : List (List ℕ)) (at : ℕ) → entries_result vs ≡ Err at → entries_result (map (seen_value all) vs) ≡ Err at }
{}

/// Masking a second time changes nothing, and a diversion, a mark or what a 181 shows does not depend on what masking removes: masking before it or after it is the same. Causes
/// and indices stay, and with them the count of diversions.
pub fn masks_are_once()
    ensures once { (all : Bool) (h : List Entry) → masked_list all (masked_list all h) ≡ masked_list all h }
    ensures appended { (all : Bool) (h : List Entry) (from target : List ℕ) (cause : ℕ) (hide_last : Bool) →
        masked_list all (list_after_diversion (masked_list all h) from target cause hide_last) ≡ masked_list all (list_after_diversion h from target cause hide_last) }
    ensures marked { (all : Bool) (h : List Entry) (place : ℕ) → masked_list all (list_marked_at place (masked_list all h)) ≡ masked_list all (list_marked_at place h) }
    ensures reported { (all hide_diverting hide_target : Bool) (h : List Entry) →
        masked_list all (history_for_caller hide_diverting hide_target (masked_list all h)) ≡ masked_list all (history_for_caller hide_diverting hide_target h) }
    ensures causes { (all : Bool) (h : List Entry) → map (λ e. e.cause) (masked_list all h) ≡ map (λ e. e.cause) h }
    ensures indices { (all : Bool) (h : List Entry) → map (λ e. e.index) (masked_list all h) ≡ map (λ e. e.index) h }
    ensures counts { (all : Bool) (h : List Entry) → diversions_in (masked_list all h) ≡ diversions_in h }
{}

/// The count against the bound rises by one with each diversion that is made, and by nothing else; the list of the call shows as many diversions, where a first URI has no
/// cause of its own, and never fewer.
pub fn diversions_are_counted()
    ensures one_more { (h : List Entry) (made : ℕ) → diversions_so_far h (made + 1) ≡ diversions_so_far h made + 1 }
    ensures appended { (h : List Entry) (from target : List ℕ) (cause : ℕ) (hide_last : Bool) → (is_empty h ≡ true → cause_of from ≡ None) →
        diversions_in (list_after_diversion h from target cause hide_last) ≡ diversions_in h + 1 }
    ensures marked { (h : List Entry) (place : ℕ) → diversions_in (list_marked_at place h) ≡ diversions_in h }
    ensures reported { (hide_diverting hide_target : Bool) (h : List Entry) → diversions_in (history_for_caller hide_diverting hide_target h) ≡ diversions_in h }
    ensures list { (h : List Entry) (from : List ℕ) (ds : List Diversion) → (is_empty h ≡ true → cause_of from ≡ None) →
        diversions_in (list_after_diversions h from ds) ≡ diversions_so_far h (length ds) }
    ensures never_fewer { (h : List Entry) (from : List ℕ) (ds : List Diversion) → diversions_so_far h (length ds) ≤ diversions_in (list_after_diversions h from ds) }
{}

/// What is written of a list is read again: the same entries, each with its URI as it is written. A masked list is read again unchanged, and what is read again has the same
/// masked form as the list.
pub fn written_lists_are_read()
    ensures entries { (h : List Entry) → AreReadable h → entries_of (map entry_text h) ≡ map written_entry h }
    ensures read { (h : List Entry) → AreReadable h → length h ≤ 32 → entries_result (map entry_text h) ≡ Ok (map written_entry h) }
    ensures masked { (all : Bool) (h : List Entry) → AreReadable h → entries_of (map entry_text (masked_list all h)) ≡ masked_list all h }
    ensures masks_alike { (all : Bool) (h : List Entry) → masked_list all (map written_entry h) ≡ masked_list all h }
{}
