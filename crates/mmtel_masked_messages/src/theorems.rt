//! Theorems about masked messages: each is the contract of a function that does nothing.
ghost use Rattle.mmtel_masked_messages.specs.Dialogs.{ContactDecides, DialogsDifferInRemote, EquivalentDialogsDifferInRemote, EquivalentSendersHaveOneName, NumbersStay};
ghost use Rattle.mmtel_masked_messages.specs.Dialogs.{RemotesDifferInTarget, RoutesStay, TagsStay, TargetsAreAnonymous};
ghost use Rattle.mmtel_masked_messages.specs.Heads.{EquivalentMessagesHaveOneHead, EquivalentParsedHaveOneHead, LinesKeepTheirHead, MessagesKeepTheirHead};
ghost use Rattle.mmtel_masked_messages.specs.Requests.{AttemptsAreHidden, AttemptsHaveOneHead, EntriesAreHidden, EntriesHaveNoHead, NoOwnFieldsAreNoHead, RelayedAreHidden};
ghost use Rattle.mmtel_masked_messages.specs.Requests.{ShownLinesHaveNoHead};
ghost use Rattle.mmtel_masked_messages.specs.Responses.{EquivalentResponsesAreEqual, EquivalentResponsesHaveOneHead, RelayedHaveOneHead, ResponsesAreMasked, ResponsesSeeOnlyFrom};
ghost use Rattle.mmtel_masked_messages.specs.WorkedExample.{HeadsOfInvites, MaskedInvites, RemotesOfInvites};

use mmtel_transaction::theorems::heads_rest_on_five_names;

/// What transactions read of a message depends on none of its private places, whichever these are: so two messages that are equal when masked, each by its own places, have the
/// same head (RFC 3261 §17.1.3, §17.2.3).
pub fn heads_see_no_private_field()
    ensures messages { MessagesKeepTheirHead }
    ensures lines { LinesKeepTheirHead }
    ensures equivalent { EquivalentMessagesHaveOneHead }
    ensures received { EquivalentParsedHaveOneHead }
{
    heads_rest_on_five_names();
}

/// The server's response to a masked request is its response to the request, masked: From is the only private place in it (RFC 3261 §8.2.6.2). So responses to requests that are
/// equal when masked have the same head, and are equal where From is not private.
pub fn responses_are_masked()
    ensures see_from { ResponsesSeeOnlyFrom }
    ensures masked { ResponsesAreMasked }
    ensures one_head { EquivalentResponsesHaveOneHead }
    ensures relayed { RelayedHaveOneHead }
    ensures equal { EquivalentResponsesAreEqual }
{
    heads_rest_on_five_names();
}

/// The identifiers of a dialog, the route to the other side and its numbers are read from masked lines as from the lines, whatever is private; the target is anonymous where
/// Contact is private, and stays where it is not (RFC 3261 §12.1.1, §12.1.2, §12.2.1.1).
pub fn dialogs_keep_their_names()
    ensures tags { TagsStay }
    ensures routes { RoutesStay }
    ensures numbers { NumbersStay }
    ensures remotes { RemotesDifferInTarget }
    ensures target { ContactDecides }
    ensures nobody { TargetsAreAnonymous }
    ensures dialogs { DialogsDifferInRemote }
    ensures equivalent { EquivalentSendersHaveOneName }
    ensures taken_alike { EquivalentDialogsDifferInRemote }
{}

/// The requests that the server sends to a peer on behalf of a restricted sender: an untrusted peer gets the same request from messages that are equal when masked, and a trusted
/// one a request of the same head. Where only entries of History-Info are private this holds of any sender (RFC 3323 §4.1, RFC 3325 §7, RFC 7044 §10.1).
pub fn requests_hide_their_sender()
    ensures attempts { AttemptsAreHidden }
    ensures relayed { RelayedAreHidden }
    ensures one_head { AttemptsHaveOneHead }
    ensures foreign { NoOwnFieldsAreNoHead }
    ensures shown { ShownLinesHaveNoHead }
    ensures entries { EntriesAreHidden }
    ensures entries_head { EntriesHaveNoHead }
{
    heads_rest_on_five_names();
}

/// A worked INVITE, with and without a request for privacy, computes: what remains of it when it is masked, its head, and what a leg reads of it.
pub fn worked_example_computes()
    ensures masked { MaskedInvites }
    ensures heads { HeadsOfInvites }
    ensures remotes { RemotesOfInvites }
{}
