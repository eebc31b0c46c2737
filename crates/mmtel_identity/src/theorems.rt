//! The theorems about restriction, without code.
ghost use Rattle.mmtel_identity.specs.Theorems.{WordsRestrict, PermanentRestricts, UnrequestedIsUnrestricted, HasThreeGrounds};

/// The words `id`, `user` and `header` of Privacy restrict the identity with which they come, whatever the record says.
pub fn privacy_words_restrict()
    ensures law { WordsRestrict }
{}

/// A restriction service that is active and permanent restricts, whatever words Privacy has, including `none`.
pub fn permanent_mode_restricts()
    ensures law { PermanentRestricts }
{}

/// An identity for which neither the words of Privacy nor an active service require a restriction is not restricted.
pub fn unrequested_is_unrestricted()
    ensures law { UnrequestedIsUnrestricted }
{}

/// An identity is restricted on one of three grounds, and on no other: by a word of Privacy, by the permanent mode, or by the temporary mode where that restricts by default and
/// Privacy does not have `none`.
pub fn restriction_has_three_grounds()
    ensures law { HasThreeGrounds }
{}
