//! Theorems about whole lists of operations: each is the contract of a function that does nothing.
ghost use Rattle.mmtel_transaction.specs.Theorems.{AcksEndRetransmission, FewAreOpened, FiresInOrder, InvitesTimeOut, KeysAreTheirOwn, LastOnesEnd, NumbersCount, NumbersDiffer};
ghost use Rattle.mmtel_transaction.specs.Theorems.{CapacityRemains, OthersTimeOut, RetransmissionsOpenNothing, StrangersGetNothing, TheFirstFires, TokensDiffer, WhatEndedStays};
ghost use Rattle.mmtel_transaction.specs.Equivalence.{TextsDecideNothing};
ghost use Rattle.mmtel_transaction.specs.OnePeer.{KeepsPeers, NewPeers, RequestPeers};
ghost use Rattle.mmtel_transaction.specs.Matching.{AcksBelong, HearsByMatching, OwnersAreLive};
ghost use Rattle.mmtel_transaction.specs.Retransmissions.{AckedRetransmitsNothing, AcksOf2xxEndRetransmission, FinalsAwaitTheirAck};
ghost use Rattle.mmtel_transaction.specs.Retransmissions.{KeptAcksAreRetransmitted, RingingDoesNotTimeOut, UnansweredTimeOut};
ghost use Rattle.mmtel_transaction.specs.Pracks.{FinalsEndReliable, ReliableAreRetransmitted, ReliableGoOn, SentReliableWait, SettledAreGone};
ghost use Rattle.mmtel_transaction.specs.Firings.{ArmedInItsStep, BeginsChangeNothing, DueIsCounted, FiringsEnd, FiringsLeaveFewer, FiringsUseUp, MoreChangesNothing};
ghost use Rattle.mmtel_transaction.specs.Firings.{NoneIsDue, SendsAddNone, UpcomingIsLeast};
ghost use Rattle.mmtel_transaction.specs.HeadsRead.{HeadsRestOnFields, HeadsRestOnFiveNames};

/// An INVITE that gets no response is retransmitted at the moments of its closed list, then it times out, and then nothing is due (RFC 3261 §17.1.1.2).
pub fn invites_time_out()
    ensures given_up { InvitesTimeOut }
{}

/// So it is with any other request, by its own list (RFC 3261 §17.1.2.2).
pub fn others_time_out()
    ensures given_up { OthersTimeOut }
{}

/// Transactions are opened only by messages that are received and requests that are sent, so over fewer than 2^60 steps and 2^60 drawn branches each has its own number, which is
/// how many were opened before it.
pub fn numbers_are_distinct()
    ensures few { FewAreOpened }
    ensures capacity { CapacityRemains }
    ensures count { NumbersCount }
    ensures differ { NumbersDiffer }
{}

/// No two live server transactions have the same branch, sent-by and method (RFC 3261 §17.2.3).
pub fn keys_are_their_own()
    ensures distinct { KeysAreTheirOwn }
{}

/// A request that opened a server transaction opens nothing when it is received again, until `due` reported the end of that transaction; and where it is received from another
/// peer than the one that opened the transaction, nothing is retransmitted for it.
pub fn retransmissions_open_nothing()
    ensures nothing { RetransmissionsOpenNothing }
    ensures strangers { StrangersGetNothing }
{}

/// The ACK of a non-2xx final ends the retransmission of that final, and of no other (RFC 3261 §17.2.1).
pub fn acks_end_retransmission()
    ensures ended { AcksEndRetransmission }
{}

/// What `due` returns is ordered by the moments, then by the steps that armed them, then by the order of sending; it is the first that is due; and as long as no other operation
/// is called no deadline is returned twice.
pub fn deadlines_fire_in_order()
    ensures order { FiresInOrder }
    ensures first { TheFirstFires }
{}

/// A transaction that was reported to time out or to end is no longer live, and it never is again, whatever is called: so its end is reported at most once.
pub fn ends_are_reported_once()
    ensures ended { LastOnesEnd }
    ensures stays { WhatEndedStays }
{}

/// Each token is drawn once: the tokens of two draws differ, as long as the number of the draw has not reached its maximum.
pub fn tokens_differ()
    ensures differ { TokensDiffer }
{}

/// The texts that are due to trusted peers decide nothing: lists of operations that leave the same transactions except for those texts have equivalent results, and remain
/// equivalent after further operations.
pub fn texts_decide_nothing()
    ensures equivalent { TextsDecideNothing }
{}

/// The peer of a transaction is the one that sent its request, or the one to which its request was sent, and never another.
pub fn transactions_are_of_one_peer()
    ensures received { NewPeers }
    ensures peers { RequestPeers }
    ensures kept { KeepsPeers }
{}

/// What `hear` returns is determined by the live transaction to which the message belongs (RFC 3261 §9.2, §17.1.3, §17.2.3).
pub fn messages_belong_to_one_transaction()
    ensures says { HearsByMatching }
    ensures live { OwnersAreLive }
    ensures acks { AcksBelong }
{}

/// Whatever else is called meanwhile: a request that gets no response is retransmitted at its moments and times out 32,000 ms after it was sent; an INVITE that had a provisional
/// response is neither retransmitted nor timed out (RFC 3261 §17.1.1.2, §17.1.2.2).
pub fn requests_wait_for_responses()
    ensures unanswered { UnansweredTimeOut }
    ensures ringing { RingingDoesNotTimeOut }
{}

/// Whatever else is called meanwhile: a final response to an INVITE is retransmitted at its moments until its ACK is received, and its transaction ends 32,000 ms after it; once
/// its ACK was received nothing is retransmitted; and an ACK that was sent is sent again for each retransmission of its final (RFC 3261 §13.3.1.4, §17.1.1.3, §17.2.1; RFC 6026
/// §8).
pub fn finals_wait_for_their_ack()
    ensures unacknowledged { FinalsAwaitTheirAck }
    ensures success { AcksOf2xxEndRetransmission }
    ensures no_retransmission { AckedRetransmitsNothing }
    ensures kept { KeptAcksAreRetransmitted }
{}

/// Whatever else is called meanwhile: a reliable provisional response is retransmitted at its moments until it is settled, as by its PRACK, or a final is sent; then it is no
/// longer retransmitted (RFC 3262 §3).
pub fn reliable_waits_for_its_prack()
    ensures offered { SentReliableWait }
    ensures waits { ReliableGoOn }
    ensures again { ReliableAreRetransmitted }
    ensures settled { SettledAreGone }
    ensures ended { FinalsEndReliable }
{}

/// The next deadline is the least one by moment and by the step in which it was armed, which is that of the operation that caused it; and where nothing else is called,
/// successive deadlines terminate.
pub fn deadlines_end()
    ensures least { UpcomingIsLeast }
    ensures none { NoneIsDue }
    ensures armed { ArmedInItsStep }
    ensures use_up { FiringsUseUp }
    ensures end { FiringsEnd }
    ensures more { MoreChangesNothing }
{}

/// What the transactions read of a message depends only on its method or status and on its lines of five names: of Via the branch and the sent-by of the first value, of From and
/// To the tag (RFC 3261 §7.1, §7.2, §8.1.1).
pub fn heads_rest_on_five_names()
    ensures fields { HeadsRestOnFields }
    ensures lines { HeadsRestOnFiveNames }
{}

/// Successive deadlines terminate too where requests and responses are sent between them, as the layers above do when a deadline fires: each that fires leaves fewer that are not
/// later than it, and what is sent at its moment adds none.
pub fn deadlines_end_between_sends()
    ensures fewer { FiringsLeaveFewer }
    ensures added { SendsAddNone }
    ensures begun { BeginsChangeNothing }
    ensures counted { DueIsCounted }
{}
