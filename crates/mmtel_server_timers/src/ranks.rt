//! The moments of the timers of calls, participants and subscriptions, by rank: those of one rank fire in the order of moments, and those of one moment in the order of arming.
ghost use Rattle.std.specs.Prelude.{◌≡◌, [], OnErr, OnOk};
ghost use Rattle.mmtel_timers.specs.Deadlines.{after_arming, without};
ghost use Rattle.mmtel_server_timers.specs.Queue.{in_rank, in_ranks, key_of};

use mmtel_timers::{Deadlines, Key, NoMemory, Steps};
use std::alloc::Global;
use std::sync::ledger::Ledger;

/// The moments of each rank, with the numbers of the timers that are armed.
#[derive(Drop)]
pub struct Ranks {
    /// Rank 0: no reply, and the expiration of a subscription.
    pub no_replies: Deadlines,
    /// Rank 1: a missing PRACK.
    pub no_pracks: Deadlines,
    /// Rank 2: the longest time of an attempt.
    pub caps: Deadlines,
    /// Rank 3: a missing ACK.
    pub no_acks: Deadlines,
    /// Rank 4: the expiration of a session.
    pub expiries: Deadlines,
}

impl Ranks {
    /// None of any rank. It allocates nothing.
    pub fn new() -> Ranks
        ensures { result ≡ record { no_replies = []; no_pracks = []; caps = []; no_acks = []; expiries = [] } }
    {
        Ranks {
            no_replies: Deadlines::new(),
            no_pracks: Deadlines::new(),
            caps: Deadlines::new(),
            no_acks: Deadlines::new(),
            expiries: Deadlines::new(),
        }
    }

    /// Arms the timer of a number and a rank, after the others, without a counted step.
    ///
    /// # Errors
    ///
    /// Out of memory only; nothing is changed then.
    pub fn arm<L: Ledger>(
        &mut self,
        alloc: Global,
        rank: u64,
        at: u64,
        number: u64,
        steps: &mut Steps<L>,
    ) -> Result<(), NoMemory>
        ensures ok { OnOk result (self.new ≡ in_rank rank (after_arming at (key_of number)) self.old) }
        ensures err { OnErr result (self.new ≡ self.old) }
        ensures cost { steps.new ≡ steps.old }
    {
        match rank {
            0 => self.no_replies.arm(alloc, at, Key(number), steps),
            1 => self.no_pracks.arm(alloc, at, Key(number), steps),
            2 => self.caps.arm(alloc, at, Key(number), steps),
            3 => self.no_acks.arm(alloc, at, Key(number), steps),
            _ => self.expiries.arm(alloc, at, Key(number), steps),
        }
    }

    /// Disarms the timer of a number, of whatever rank it is, without a counted step.
    pub fn disarm<L: Ledger>(&mut self, number: u64, steps: &mut Steps<L>)
        ensures rest { self.new ≡ in_ranks (without (key_of number)) self.old }
        ensures cost { steps.new ≡ steps.old }
    {
        self.no_replies.disarm(Key(number), steps);
        self.no_pracks.disarm(Key(number), steps);
        self.caps.disarm(Key(number), steps);
        self.no_acks.disarm(Key(number), steps);
        self.expiries.disarm(Key(number), steps);
    }
}
