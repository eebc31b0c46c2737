//! Worked sequences of operations, as the contract of a function that does nothing.
ghost use Rattle.mmtel_transaction_examples.specs.Sequences.{EndsAfterTheAck, RetransmittedInvite, SecondTimeout, Timeout};
ghost use Rattle.mmtel_transaction_examples.specs.DeadlineExamples.{SuccessiveDeadlines};
ghost use Rattle.mmtel_transaction_examples.specs.MatchingExamples.{RequestsMatch, ResponsesMatch};
ghost use Rattle.mmtel_transaction_examples.specs.HeadExamples.{HeadsOfInvites};
ghost use Rattle.mmtel_transaction_examples.specs.PeerExamples.{PeersExample, TextsExample};
ghost use Rattle.mmtel_transaction_examples.specs.RetransmissionExamples.{AcksReceivedAndKept, FinalAwaitsAck, InviteAmongOthers, ReliableAwaitsPrack};

/// Two worked sequences of operations compute from the definitions: a retransmitted INVITE and its final, and an INVITE that gets no response with the one that is sent after it.
pub fn sequences_compute()
    ensures repeated { RetransmittedInvite }
    ensures silence { Timeout }
    ensures second { SecondTimeout }
    ensures ended { EndsAfterTheAck }
{}

/// Successive deadlines, with the steps that armed them.
pub fn deadlines_compute()
    ensures deadlines { SuccessiveDeadlines }
{}

/// What is read of three INVITEs that differ in Request-URI and From alone (RFC 3261 §8.1.1).
pub fn heads_compute()
    ensures heads { HeadsOfInvites }
{}

/// An INVITE whose text is due to a trusted peer, and the peers of transactions.
pub fn peers_compute()
    ensures texts { TextsExample }
    ensures peers { PeersExample }
{}

/// The transactions to which CANCEL, ACK, BYE and responses belong.
pub fn matching_computes()
    ensures requests { RequestsMatch }
    ensures responses { ResponsesMatch }
{}

/// An INVITE that gets no response, beside a request that is answered; a refusal with and without its ACK; the ACK of a 2xx; an ACK that is kept; a reliable provisional
/// response.
pub fn retransmissions_compute()
    ensures requests { InviteAmongOthers }
    ensures finals { FinalAwaitsAck }
    ensures acks { AcksReceivedAndKept }
    ensures answers { ReliableAwaitsPrack }
{}
