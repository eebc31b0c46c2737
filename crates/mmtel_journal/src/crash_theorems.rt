//! What a stop leaves of a journal, over every list of calls.
ghost use Rattle.std.specs.Prelude.{ℕ, List};
ghost use Rattle.mmtel_journal.specs.Disks.{Leaves, LeavesOnly};
ghost use Rattle.mmtel_journal.specs.Journal.{IsJournalOrMore};
ghost use Rattle.mmtel_journal.specs.Logs.{LogRepresents};
ghost use Rattle.mmtel_journal.specs.JournalCalls.{JournalCall, payloads_after_calls, possible_additions, refused_after_calls, IsJournalCall, AreJournalCalls};
ghost use Rattle.mmtel_journal.specs.declared.logs.Log.{Log as TheLog};

use crate::disks::Disk;

/// A theorem, without code: over every list of calls, failed ones included, a stop at any moment, within a call or between two, leaves a journal of its initial payloads and those
/// of the acknowledged calls, in order, followed at most by one more, whole: one that was not acknowledged and was tried after the last call that was.
pub fn crashes_keep_acknowledged_calls<D: Disk>()
    ensures between { (calls : List JournalCall) (old new : TheLog D) (payloads refused : List (List ℕ)) → D.honest old.disk
        → LogRepresents D.may_leave payloads refused old
        → AreJournalCalls D.honest D.may_leave D.clock D.left_since old calls new
        → Leaves (D.may_leave new.disk) (IsJournalOrMore (payloads_after_calls payloads calls) (refused_after_calls refused calls)) }
    ensures within { (calls : List JournalCall) (old mid new : TheLog D) (call : JournalCall) (payloads refused : List (List ℕ))
        → D.honest old.disk → LogRepresents D.may_leave payloads refused old
        → AreJournalCalls D.honest D.may_leave D.clock D.left_since old calls mid
        → IsJournalCall D.honest D.may_leave D.clock D.left_since mid call new
        → LeavesOnly D.clock D.left_since mid.disk new.disk
        (IsJournalOrMore (payloads_after_calls payloads calls) (possible_additions (refused_after_calls refused calls) call)) }
{}
