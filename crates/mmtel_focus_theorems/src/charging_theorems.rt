//! The charging of conferences. These are theorems, without code.
ghost use Rattle.mmtel_focus_theorems.specs.Charging.{OperationsAreCharged};
ghost use Rattle.mmtel_focus_theorems.specs.Participants.{ParticipantsAreAccountedFor, ParticipantsAreMetered, RowsAreAccountedFor};

/// Whatever is done on a table of conferences: a connected participant with an account has a meter, which begins when it is connected; and each meter that runs goes on until its
/// participant leaves, and is then closed by one CDR, in the order of leaving; those that leave in one step in the order of the participants (TS 32.260 §5).
pub fn participants_are_charged_once()
    ensures charged { OperationsAreCharged }
{}

/// Whatever is done on a table of conferences: the state of each participant follows from an operation that made it a participant: it opened the conference, joined it, was
/// adopted, or was invited by a REFER and answered. Its account is that of this operation, or of the URI of the Refer-To; a connected participant has a meter of this account
/// since it was connected, none exactly where it has no account; and each CDR that is filed is that of such a meter, closed at the moment of the operation (TS 32.260 §5, RFC
/// 4579 §5.4 to §5.6).
pub fn participants_have_their_meters()
    ensures participants { ParticipantsAreAccountedFor }
    ensures metered { ParticipantsAreMetered }
    ensures rows { RowsAreAccountedFor }
{}
