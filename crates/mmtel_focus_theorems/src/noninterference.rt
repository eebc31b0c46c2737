//! Noninterference of conferences. These are theorems, without code.
ghost use Rattle.mmtel_focus_theorems.specs.Queries.{EquivalentRoomsAnswerEqually};
ghost use Rattle.mmtel_focus_theorems.specs.Configurations.{OneIsEquivalent, OperationsSeeLookupsAlone};
ghost use Rattle.mmtel_focus_theorems.specs.Noninterference.{OperationsAreSeenEqually, TablesStayEquivalent};

use mmtel_transaction::theorems::heads_rest_on_five_names;

/// Of the URIs of accounts, all that is done on a table of conferences depends on the results of account lookups alone: that of the party that a REFER asks to invite. Under two
/// configurations that are equal but for these URIs its result is the same where these lookups have the same results; and all premises on two configurations hold for a
/// configuration and itself (RFC 4579 §5.5).
pub fn lookups_alone_are_seen()
    ensures law { OperationsSeeLookupsAlone }
    ensures one { OneIsEquivalent }
{}

/// Two tables of conferences, each under its configuration, on which the same is done and received but for private places: they stay equal but for these, and of each operation
/// untrusted peers see the same, the same tokens are drawn and the same CDRs filed. The same holds of two histories of them, of any length.
pub fn conferences_stay_equivalent()
    ensures tables { TablesStayEquivalent }
    ensures steps { OperationsAreSeenEqually }
{
    heads_rest_on_five_names();
}

/// Queries on tables of conferences that are equal but for private places have the same results: which participant has a dialog, whether a conference is full, and whether one
/// more conference can be opened (RFC 3261 §12.2.2).
pub fn equivalent_rooms_answer_equally()
    ensures law { EquivalentRoomsAnswerEqually }
{}
