//! Concrete histories with their expected answers, each as a clause that is proved by computing the definitions.
ghost use Rattle.grid_types.specs.WorkedHistories.{WorkedMatching, WorkedWriting, WorkedBusySlot, WorkedChoice, WorkedRetry, WorkedLateBind, WorkedDeadline, WorkedPoll, WorkedFullQueue, WorkedWithdrawals, WorkedSweep, WorkedEqualIds, WorkedMismatch, WorkedNodes, WorkedLapse, WorkedPublishing, WorkedIdle, WorkedDrain, WorkedRound, WorkedNumbers, WorkedRefusals, WorkedSuspect, WorkedCount, WorkedQueueTime};
ghost use Rattle.grid_types.specs.FullGrid.{WorkedFullGrid};

/// What the hub answers after some calls, and which entries may not follow, at histories that were worked out by hand.
///
/// It does nothing. What it is there for is its contract.
pub fn worked_histories()
    ensures matching { WorkedMatching }
    ensures writing { WorkedWriting }
    ensures busy_slot { WorkedBusySlot }
    ensures choice { WorkedChoice }
    ensures retry { WorkedRetry }
    ensures late_bind { WorkedLateBind }
    ensures deadline { WorkedDeadline }
    ensures poll { WorkedPoll }
    ensures full_queue { WorkedFullQueue }
    ensures withdrawals { WorkedWithdrawals }
    ensures sweep { WorkedSweep }
    ensures equal_ids { WorkedEqualIds }
    ensures mismatch { WorkedMismatch }
    ensures nodes { WorkedNodes }
    ensures lapse { WorkedLapse }
    ensures publishing { WorkedPublishing }
    ensures idle { WorkedIdle }
    ensures drain { WorkedDrain }
    ensures round { WorkedRound }
    ensures numbers { WorkedNumbers }
    ensures refusals { WorkedRefusals }
    ensures suspect { WorkedSuspect }
    ensures count { WorkedCount }
    ensures queue_time { WorkedQueueTime }
{}

/// A grid that lists 1,024 nodes takes no more. It does nothing.
pub fn full_grid()
    ensures { WorkedFullGrid }
{}
