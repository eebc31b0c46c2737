//! What a stop leaves of a keeper's journal, as sheets and rows.
ghost use Rattle.std.specs.Prelude.{ℕ, List, Result};
ghost use Rattle.mmtel_journal.specs.Disks.{Leaves, LeavesOnly};
ghost use Rattle.mmtel_journal.specs.JournalContents.{ContentsOrMore, IsJournalOfOrMore};
ghost use Rattle.mmtel_journal.specs.JournalCalls.{JournalCall, possible_additions, refused_after_calls};
ghost use Rattle.mmtel_journal.specs.Keepers.{contents_of, KeeperRepresents};
ghost use Rattle.mmtel_journal.specs.KeeperCalls.{IsKeeperCall, AreKeeperCalls};
ghost use Rattle.mmtel_journal.specs.Opening.{IsOpening, OpensAs};
ghost use Rattle.mmtel_journal.specs.declared.opening.JournalFault.{JournalFault as TheFault};
ghost use Rattle.mmtel_journal.specs.declared.keepers.JournalKeeper.{JournalKeeper as TheKeeper};

use crate::disks::Disk;

/// A theorem, without code: over every list of calls, failed ones included, a stop at any moment, within a call or between two, leaves a journal of the sheets and rows that the
/// keeper holds then, which are the initial ones and those of the acknowledged calls, in order; or of these and one more call, whole, that was refused, or under way, since the
/// last call that was acknowledged.
pub fn crashes_leave_the_contents<D: Disk>()
    ensures between { (calls : List JournalCall) (old new : TheKeeper D) (payloads refused : List (List ℕ))
        → D.honest old.log.disk → KeeperRepresents D.may_leave payloads refused old
        → AreKeeperCalls D.honest D.may_leave D.clock D.left_since old calls new
        → Leaves (D.may_leave new.log.disk) (IsJournalOfOrMore (contents_of new) (refused_after_calls refused calls)) }
    ensures within { (calls : List JournalCall) (old mid new : TheKeeper D) (call : JournalCall) (payloads refused : List (List ℕ))
        → D.honest old.log.disk
        → KeeperRepresents D.may_leave payloads refused old
        → AreKeeperCalls D.honest D.may_leave D.clock D.left_since old calls mid
        → IsKeeperCall D.honest D.may_leave D.clock D.left_since mid call new
        → LeavesOnly D.clock D.left_since mid.log.disk new.log.disk
        (IsJournalOfOrMore (contents_of mid) (possible_additions (refused_after_calls refused calls) call)) }
{}

/// A theorem, without code: whatever such a stop leaves, opening it finds what is held then, or that with one more call, whole, that was refused, or under way, since the last call
/// that was acknowledged; unless the disk failed or memory ran out. It is never broken.
pub fn crash_images_are_opened<D: Disk, E: Disk>()
    ensures between { (calls : List JournalCall) (old new : TheKeeper D) (payloads refused : List (List ℕ)) (c : List ℕ)
        (opened : Result (TheKeeper E) (E × TheFault))
        → D.honest old.log.disk
        → KeeperRepresents D.may_leave payloads refused old → AreKeeperCalls D.honest D.may_leave D.clock D.left_since old calls new
        → D.may_leave new.log.disk c → IsOpening c opened
        → OpensAs (ContentsOrMore (contents_of new) (refused_after_calls refused calls)) opened }
    ensures within { (calls : List JournalCall) (old mid new : TheKeeper D) (call : JournalCall) (payloads refused : List (List ℕ))
        (c : List ℕ) (opened : Result (TheKeeper E) (E × TheFault))
        → D.honest old.log.disk
        → KeeperRepresents D.may_leave payloads refused old → AreKeeperCalls D.honest D.may_leave D.clock D.left_since old calls mid
        → IsKeeperCall D.honest D.may_leave D.clock D.left_since mid call new
        → D.left_since new.log.disk (D.clock mid.log.disk) c → IsOpening c opened
        → OpensAs (ContentsOrMore (contents_of mid) (possible_additions (refused_after_calls refused calls) call)) opened }
{}
