//! Theorems about the definitions that contracts cite, each as the contract of a function that does nothing.
ghost use Rattle.std.specs.Prelude.{◌≡◌, ℕ, List, length};
ghost use Rattle.std.specs.List.Sorted.{IsStrictlyIncreasing};
ghost use Rattle.mmtel_reliable.specs.Traces.{acknowledged_responses, AreAwaited, numbers_up_to, AcksOperation, events_of, AreConsecutive, own_numbers, relayed_responses};

/// After any list of operations, the own numbers that were used are 1, 2, 3 and so on, and the callee's numbers of each attempt are consecutive.
pub fn own_numbers_count_up()
    ensures counted { (cseq : ℕ) (ops : List AcksOperation) →
        let answers = relayed_responses (events_of cseq ops) in own_numbers answers ≡ numbers_up_to (length answers) }
    ensures followed { (cseq : ℕ) (ops : List AcksOperation) → AreConsecutive (events_of cseq ops) }
{}

/// After any list of operations, each response was acknowledged once at most, in the order of own numbers, and was then the oldest of the current attempt that was not yet
/// acknowledged, so none of an attempt that was left; it was acknowledged to the callee by the number that the callee had given it.
pub fn responses_acknowledged_in_order()
    ensures once { (cseq : ℕ) (ops : List AcksOperation) → IsStrictlyIncreasing (own_numbers (acknowledged_responses (events_of cseq ops))) }
    ensures awaited { (cseq : ℕ) (ops : List AcksOperation) → AreAwaited (events_of cseq ops) }
{}
