//! The list of entries.
ghost use Rattle.std.specs.Prelude.{if◌then◌else◌, ℕ, List, Bool, true, None, map, slice_set, ◌≡◌, ◌+◌, ◌++◌, ◌∷◌, ◌≤◌, ◌<◌, [], length, IfOk, IfErr, OnOk, OnErr, take};
ghost use Rattle.mmtel_history.specs.HistoryInfo.{IsEntriesResult, entries_result, list_marked_at, list_hidden_if, last_index};
ghost use Rattle.mmtel_history.specs.HistoryInfo.{with_target, list_after_diversion, history_for_caller, list_after_diversions, Diversion};
ghost use Rattle.mmtel_history.specs.HistoryInfo.{diversions_in, diversions_so_far, is_empty, masked_list, seen_entry, unmarked_entry, hidden_entry_if, AreReadable, IsUriText};
ghost use Rattle.mmtel_history.specs.HistoryInfo.{IsTarget};
ghost use Rattle.mmtel_history.specs.EntryUri.{cause_of};
ghost use Rattle.mmtel_history.specs.declared.entries.Entry.{Entry};

use crate::entries::{Entry, first_entry, masked_entry, read_entry, target_entry};
use crate::faults::HistoryFault;
use mmtel_base::{List, NoMemory, Text};
use mmtel_lex::LexFault;
use std::alloc::Global;
use std::marker::Model;

/// The targets of a call so far, at most 48, the first one first.
#[derive(Drop)]
pub struct History {
    entries: Vec<Entry>,
}

impl Model for History {
    ghost use Rattle.std.specs.Prelude.{List, length, ◌≤◌};
    ghost use Rattle.mmtel_history.specs.declared.entries.Entry.{Entry};

    ghost Value = { List Entry };

    ghost view = { λ h. h.entries.items };

    ghost invariant = { λ h. length h.entries.items ≤ 48 };
}

/// How many values a message may have.
const MOST_VALUES: usize = 32;

/// Reads the values of the History-Info lines of a message (RFC 7044 §5), of which there may be 32.
///
/// # Errors
///
/// The place of the first value that is no entry, or 32 where there are more; and out of memory.
pub fn read_values(alloc: Global, values: &List<Text>) -> Result<History, HistoryFault>
    ensures exact { IsEntriesResult result (entries_result values.now) }
    ensures few { IfOk result (λ h. length h ≤ 32) }
    // What was read can be written, and is then read again.
    ensures readable { IfOk result (λ h. AreReadable h) }
{
    let mut entries = Vec::new(alloc);
    for (i, value) in values.items().iter().enumerate() {
        if i >= MOST_VALUES {
            return Err(HistoryFault::Malformed { at: 32 });
        }
        match read_entry(alloc, value.bytes()) {
            Ok(entry) => entries.push(entry)?,
            Err(LexFault::Malformed) => return Err(HistoryFault::Malformed { at: i }),
            Err(LexFault::NoMemory) => return Err(HistoryFault::NoMemory),
        }
    }
    Ok(History { entries })
}

/// Hides the entry at this place, if requested.
fn hide_if(entries: &mut Vec<Entry>, hide: bool, index: usize)
    requires { index < length entries.old.items }
    ensures { entries.new.items ≡ list_hidden_if hide index entries.old.items }
{
    if hide {
        entries[index].hidden = true;
    }
}

/// The index of the last entry.
fn last_index(entries: &[Entry]) -> &[u8]
    requires { 0 < length entries.now }
    ensures { result.now ≡ last_index entries.now }
{
    entries[entries.len() - 1].index.bytes()
}

/// Adds a target below the last entry.
fn add_target(
    entries: &mut Vec<Entry>,
    alloc: Global,
    target: &[u8],
    cause: u16,
    hide_last: bool,
) -> Result<(), NoMemory>
    requires { 0 < length entries.old.items }
    ensures ok { OnOk result (entries.new.items ≡ with_target entries.old.items target.now cause hide_last) }
    ensures err { OnErr result (entries.new.items ≡ entries.old.items) }
    ensures grows { length entries.new.items ≤ length entries.old.items + 1 }
{
    let last = entries.len() - 1;
    let entry = target_entry(alloc, last_index(entries.as_slice()), target, cause)?;
    entries.push(entry)?;
    hide_if(entries, hide_last, last);
    Ok(())
}

/// Adds the first target and the one to which it is diverted.
#[tactic(auto, unfolding(crate::specs::HistoryInfo::list_after_diversion))]
fn add_first(
    entries: &mut Vec<Entry>,
    alloc: Global,
    from: &[u8],
    target: &[u8],
    cause: u16,
    hide_last: bool,
) -> Result<(), NoMemory>
    requires { entries.old.items ≡ [] }
    ensures ok { OnOk result (entries.new.items ≡ list_after_diversion [] from.now target.now cause hide_last) }
    ensures err { OnErr result (entries.new.items ≡ []) }
    ensures few { length entries.new.items ≤ 2 }
{
    entries.push(first_entry(alloc, from)?)?;
    match add_target(entries, alloc, target, cause, hide_last) {
        Ok(()) => Ok(()),
        Err(error) => {
            entries.clear();
            Err(error)
        }
    }
}

/// Adds what one more diversion contributes.
#[tactic(auto, unfolding(crate::specs::HistoryInfo::list_after_diversion))]
fn extend(
    entries: &mut Vec<Entry>,
    alloc: Global,
    from: &[u8],
    target: &[u8],
    cause: u16,
    hide_last: bool,
) -> Result<(), NoMemory>
    ensures ok { OnOk result (entries.new.items ≡ list_after_diversion entries.old.items from.now target.now cause hide_last) }
    ensures err { OnErr result (entries.new.items ≡ entries.old.items) }
    ensures few { length entries.old.items ≤ 47 → length entries.new.items ≤ 48 }
{
    if entries.is_empty() {
        add_first(entries, alloc, from, target, cause, hide_last)
    } else {
        add_target(entries, alloc, target, cause, hide_last)
    }
}

/// How many entries have a cause.
fn count_causes(entries: &[Entry]) -> u16
    requires { length entries.now ≤ 48 }
    ensures { result ≡ diversions_in entries.now }
{
    entries.iter().filter(|entry| entry.cause.is_some()).count() as u16
}

/// Hides the entries that a 181 is not to show: the last but one, and the last.
fn hide_for_caller(entries: &mut Vec<Entry>, hide_diverting: bool, hide_target: bool)
    ensures { entries.new.items ≡ history_for_caller hide_diverting hide_target entries.old.items }
{
    let len = entries.len();
    if len == 0 {
        return;
    }
    hide_if(entries, hide_diverting, len.saturating_sub(2));
    hide_if(entries, hide_target, len - 1);
}

/// Copies of the entries.
fn copied_entries(alloc: Global, entries: &[Entry]) -> Result<Vec<Entry>, NoMemory>
    ensures { IfOk result (λ v. v.items ≡ entries.now) }
{
    let mut out = Vec::new(alloc);
    for entry in entries {
        out.push(entry.copied(alloc)?)?;
    }
    Ok(out)
}

/// The entries, masked.
fn masked_entries(alloc: Global, entries: &[Entry], all: bool) -> Result<Vec<Entry>, NoMemory>
    ensures { IfOk result (λ v. v.items ≡ masked_list all entries.now) }
{
    let mut out = Vec::new(alloc);
    for entry in entries {
        out.push(masked_entry(alloc, entry, all)?)?;
    }
    Ok(out)
}

impl History {
    /// An empty list. It allocates nothing.
    pub fn new(alloc: Global) -> History
        ensures { result ≡ [] }
    {
        History {
            entries: Vec::new(alloc),
        }
    }

    /// A copy of the list.
    ///
    /// # Errors
    ///
    /// Out of memory only.
    pub fn copied(&self, alloc: Global) -> Result<History, NoMemory>
        ensures same { IfOk result (λ h. h ≡ self.now) }
    {
        let entries = copied_entries(alloc, self.entries.as_slice())?;
        Ok(History { entries })
    }

    /// The entries, in order.
    pub fn entries(&self) -> &[Entry]
        ensures items { result.now ≡ self.now }
        ensures few { length self.now ≤ 48 }
    {
        self.entries.as_slice()
    }

    /// Hides the entry at this place: its URI is written with `Privacy=history` (RFC 7044 §10.1).
    pub fn mark(&mut self, index: usize)
        requires { index < length self.old }
        ensures marked { self.new ≡ list_marked_at index self.old }
        ensures len { length self.new ≡ length self.old }
        // That entry is hidden, and no other entry is hidden or unhidden by it.
        ensures alone { map (λ e. e.hidden) self.new ≡ slice_set (map (λ e. e.hidden) self.old) index true }
        // Nothing else that is read of the entries changes.
        ensures keeps { map unmarked_entry self.new ≡ map unmarked_entry self.old }
        // A second mark changes nothing.
        ensures once { list_marked_at index self.new ≡ self.new }
        // No further diversion is counted.
        ensures counts { diversions_in self.new ≡ diversions_in self.old }
        ensures readable { AreReadable self.old → AreReadable self.new }
        // Lists with equal masked forms have equal masked forms after a mark.
        ensures masks_alike { (all : Bool) (other : List Entry) → masked_list all other ≡ masked_list all self.old →
            masked_list all self.new ≡ masked_list all (list_marked_at index other) }
    {
        self.entries[index].hidden = true;
    }

    /// Adds what a diversion to the target, by this cause, contributes: an empty list first gets `from`, with index 1; then the last entry is hidden if `hide_last` says so, and
    /// the target with its cause is added, below the last entry's index (RFC 7044 §9.2 and §10.3).
    ///
    /// A cause that the target already has is removed.
    ///
    /// # Errors
    ///
    /// Out of memory only; the list is then as before.
    pub fn append(
        &mut self,
        alloc: Global,
        from: &Text,
        target: &Text,
        cause: u16,
        hide_last: bool,
    ) -> Result<(), NoMemory>
        requires { length self.old ≤ 47 }
        ensures ok { OnOk result (self.new ≡ list_after_diversion self.old from.now target.now cause hide_last) }
        ensures err { OnErr result (self.new ≡ self.old) }
        ensures len { OnOk result (length self.new ≡ (if is_empty self.old then 2 else length self.old + 1)) }
        // One diversion more is counted, where a first URI has no cause of its own.
        ensures counts { (is_empty self.old ≡ true → cause_of from.now ≡ None) → OnOk result (diversions_in self.new ≡ diversions_in self.old + 1) }
        // What can be read again stays so.
        ensures readable { AreReadable self.old → IsUriText from.now → IsTarget target.now cause → OnOk result (AreReadable self.new) }
        // Lists with equal masked forms have equal masked forms after one more diversion; so masking before it or after it is the same.
        ensures masks_alike { (all : Bool) (other : List Entry) → masked_list all other ≡ masked_list all self.old →
            OnOk result (masked_list all self.new ≡ masked_list all (list_after_diversion other from.now target.now cause hide_last)) }
    {
        let entries = &mut self.entries;
        extend(
            entries,
            alloc,
            from.bytes(),
            target.bytes(),
            cause,
            hide_last,
        )
    }

    /// The list as the 181 about its last diversion shows it to the caller, as a separate list: the entry of the user who diverted, the last but one, is also hidden
    /// if `hide_diverting` says so, and the target's, the last, if `hide_target` does (TS 24.604 §4.5.2.6). Such marks are of that one 181, and this list has none of them.
    ///
    /// # Errors
    ///
    /// Out of memory only.
    pub fn history_for_caller(
        &self,
        alloc: Global,
        hide_diverting: bool,
        hide_target: bool,
    ) -> Result<History, NoMemory>
        ensures reported { IfOk result (λ h. h ≡ history_for_caller hide_diverting hide_target self.now) }
        // Of the other entries nothing changes.
        ensures places { (front : List Entry) (diverting target : Entry) → self.now ≡ front ++ diverting ∷ target ∷ [] →
            IfOk result (λ h. h ≡ front ++ hidden_entry_if hide_diverting diverting ∷ hidden_entry_if hide_target target ∷ []) }
        ensures keeps { IfOk result (λ h. map unmarked_entry h ≡ map unmarked_entry self.now) }
        ensures counts { IfOk result (λ h. diversions_in h ≡ diversions_in self.now) }
        ensures readable { AreReadable self.now → IfOk result (λ h. AreReadable h) }
        // Lists with equal masked forms are shown with equal masked forms.
        ensures masks_alike { (all : Bool) (other : List Entry) → masked_list all other ≡ masked_list all self.now →
            IfOk result (λ h. masked_list all h ≡ masked_list all (history_for_caller hide_diverting hide_target other)) }
    {
        let mut entries = copied_entries(alloc, self.entries.as_slice())?;
        hide_for_caller(&mut entries, hide_diverting, hide_target);
        Ok(History { entries })
    }

    /// How many entries show a diversion: those with a cause.
    pub fn diversions(&self) -> u16
        ensures counted { result ≡ diversions_in self.now }
        ensures most { result ≤ length self.now }
        // After k diversions it is k more, where a first URI has no cause of its own.
        ensures each { (h : List Entry) (from : List ℕ) (ds : List Diversion) → (is_empty h ≡ true → cause_of from ≡ None) → self.now ≡ list_after_diversions h from ds →
            result ≡ diversions_so_far h (length ds) }
    {
        count_causes(self.entries.as_slice())
    }

    /// The list as an untrusted peer may see it: each hidden entry, or each entry if `all`, has the URI `sip:anonymous@anonymous.invalid`, with its cause.
    ///
    /// # Errors
    ///
    /// Out of memory only.
    pub fn masked(&self, alloc: Global, all: bool) -> Result<History, NoMemory>
        ensures masked { IfOk result (λ h. h ≡ masked_list all self.now) }
        ensures len { IfOk result (λ h. length h ≡ length self.now) }
        // It does not depend on the URI of a hidden entry except its cause: any list that differs only there gives the same.
        ensures equivalent { (other : List Entry) → map (seen_entry all) other ≡ map (seen_entry all) self.now → IfOk result (λ h. h ≡ masked_list all other) }
        // Each cause is kept, and each index.
        ensures causes { IfOk result (λ h. map (λ e. e.cause) h ≡ map (λ e. e.cause) self.now) }
        ensures indices { IfOk result (λ h. map (λ e. e.index) h ≡ map (λ e. e.index) self.now) }
        ensures counts { IfOk result (λ h. diversions_in h ≡ diversions_in self.now) }
        // Masking a second time changes nothing.
        ensures once { IfOk result (λ h. masked_list all h ≡ h) }
        ensures readable { AreReadable self.now → IfOk result (λ h. AreReadable h) }
    {
        let entries = masked_entries(alloc, self.entries.as_slice(), all)?;
        Ok(History { entries })
    }
}
