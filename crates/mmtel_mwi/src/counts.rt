//! How many messages wait.
ghost use Rattle.std.specs.Prelude.{◌≡◌};
ghost use Rattle.mmtel_mwi.specs.Counting.{no_messages};

/// How many voice messages wait in a mailbox (RFC 3842 §5.2). The urgent ones are among the others.
#[derive(Clone, Copy, Debug, PartialEq, Eq)]
pub struct Counts {
    /// New messages, at most 999,999,999.
    pub fresh: u32,
    /// Old messages, at most 999,999,999.
    pub old: u32,
    /// Urgent ones among the new.
    pub urgent_fresh: u32,
    /// Urgent ones among the old.
    pub urgent_old: u32,
}

impl Counts {
    /// No message waits.
    pub fn none() -> Counts
        ensures none { result ≡ no_messages }
    {
        Counts {
            fresh: 0,
            old: 0,
            urgent_fresh: 0,
            urgent_old: 0,
        }
    }
}
