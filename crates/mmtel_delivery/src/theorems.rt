//! Theorems about what is passed: each is the contract of a function that does nothing.
ghost use Rattle.mmtel_delivery.specs.Theorems.{NothingIsDelivered, PartsAreDelivered};

/// What is passed to a link for one list of outputs and then for another is what is passed for both.
pub fn parts_are_delivered()
    ensures none { NothingIsDelivered }
    ensures both { PartsAreDelivered }
{}
