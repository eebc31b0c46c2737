//! Theorems about the statuses of the program: each is the contract of a function that does nothing.
ghost use Rattle.mmtel_cli.specs.StatusTheorems.{ChargesKeep, ChecksAreWritten, EightIsOutOfMemory, FourRose, NoFaultNoFailure};
ghost use Rattle.mmtel_cli.specs.StatusTheorems.{OneIsUsage, ReplaysAreListed, ReplaysNeedAKeeper, ReplaysSucceed, ServesAreServed};
ghost use Rattle.mmtel_cli.specs.StatusTheorems.{RowsAreListed, RowsNeedAKeeper, ServingNeedsAKeeper, ServingNeedsALink, SevenRose, SixRose, StatusesAreThese, ThreeIsRefused};
ghost use Rattle.mmtel_cli.specs.StatusTheorems.{ZeroIsListed, ZeroKept};

/// What the statement on a whole run (`run.ran`) implies for each status: at 0 the listing of the server's outputs was written, which are exactly those of the definitions,
/// with noninterference, or a link was served so, or a service record was checked, or the CDRs that the keeper holds or the numbers of a workload were written; valid files that
/// exist are listed, or served, over a keeper that can be bound, migrated and loaded, unless memory ran out, the sink failed, or the link failed to receive, and over a
/// keeper that exposes that it cannot the status is 6, and over a link that exposes that it cannot be bound 4; for a text that is checked it is written that it is a record, or
/// its first fault with 3; the CDRs of a store whose configuration exists and is valid are written over a keeper that can be bound and read, and over one that exposes it cannot
/// the status is 6; 1 occurs exactly where the arguments are no command; 4 only where the link's count of arrival faults rose, 6 only where the keeper's did, and 7 only where
/// the sink's did; at 8 no more had been done than a given part of what the command requires, and `charges` does not change what the keeper holds.
pub fn statuses_mean()
    ensures good { ReplaysAreListed }
    ensures succeed { ReplaysSucceed }
    ensures unkept { ReplaysNeedAKeeper }
    ensures served { ServesAreServed }
    ensures unserved { ServingNeedsAKeeper }
    ensures unlinked { ServingNeedsALink }
    ensures checked { ChecksAreWritten }
    ensures charged { RowsAreListed }
    ensures uncharged { RowsNeedAKeeper }
    ensures zero { ZeroIsListed }
    ensures kept { ZeroKept }
    ensures usage { OneIsUsage }
    ensures refused { ThreeIsRefused }
    ensures link { FourRose }
    ensures keeper { SixRose }
    ensures sink { SevenRose }
    ensures memory { EightIsOutOfMemory }
    ensures keeps { ChargesKeep }
    ensures known { StatusesAreThese }
    ensures no_fault { NoFaultNoFailure }
{}
