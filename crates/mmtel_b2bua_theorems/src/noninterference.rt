//! Noninterference: what nobody may learn from the table of calls. These are theorems, without code.
ghost use Rattle.mmtel_b2bua_theorems.specs.Noninterference.{TablesKeepTheirInvariant, TablesStayEquivalent};
ghost use Rattle.mmtel_b2bua_theorems.specs.Queries.{EquivalentTablesAnswerEqually};

use mmtel_call_theorems::{
    calls_are_equivalent_in_both, calls_keep_their_invariant, detached_calls_stay_equivalent,
    lookups_alone_are_seen, public_parts_determine_queries,
};

/// After any operation on a table of calls, the INVITE that opened each call and the requests that it keeps were sent by their own peers, if the requests that are received are,
/// and its records are among those that were current.
pub fn tables_keep_their_invariant()
    ensures law { TablesKeepTheirInvariant }
{
    calls_keep_their_invariant();
}

/// Two tables of calls that are equal but for private places remain so, whatever the operations, each under its configuration: signals are received, which are the same but for
/// private places, legs are detached, put back, or calls end without them, and CDRs are handed over. Untrusted peers see the same of what is sent, of what is sent to trusted peers
/// the heads are the same, and so are tokens, CDRs and deadlines.
pub fn tables_stay_equivalent()
    ensures law { TablesStayEquivalent }
{
    public_parts_determine_queries();
    calls_are_equivalent_in_both();
    detached_calls_stay_equivalent();
    lookups_alone_are_seen();
    calls_keep_their_invariant();
}

/// Queries on indistinguishable tables have the same results: to which call a dialog, an INVITE or a client transaction belongs, the peer and the account of a side, how many calls
/// an account has, whether one more call may be opened, and whether a leg is detached (RFC 3261 §9.2, §12.2.2).
pub fn equivalent_tables_answer_equally()
    ensures law { EquivalentTablesAnswerEqually }
{
    public_parts_determine_queries();
    calls_are_equivalent_in_both();
    detached_calls_stay_equivalent();
    lookups_alone_are_seen();
    calls_keep_their_invariant();
}
