//! Worked rows of the definition of Outcome.
ghost use Rattle.mmtel_units_services.specs.Rows.{AreEnds, AreOutcomes};

/// A theorem, without code: the values of the definition of Outcome for each worked row are those of the standards; and so are the ends of attempts after which no next step is
/// evaluated.
pub fn rows_have_these_outcomes()
    ensures rows { AreOutcomes }
    ensures ends { AreEnds }
{}
