//! How many starts a request may still get, and how long it may still be polled: each law as the contract of a function that does nothing.
ghost use Rattle.request_laws.specs.Laws.{CallsKeepNewest, CallsKeepTheClock, DeadlinesAreMoments, PollsAreEarly, QueuedDeadlines, StartsRunOut};

use grid_types::history_laws;

/// A request gets a slot only on a registered node on which it had none before. Polls, binds, failed starts and freed slots give it
/// no node to be started on, and there are fewer than 2^32.
pub fn starts_run_out()
    ensures { StartsRunOut }
{
    history_laws();
}

/// A poll that does not hand out an outcome comes before the deadline, and that is a moment.
pub fn polls_are_early()
    ensures early { PollsAreEarly }
    ensures moments { DeadlinesAreMoments }
{
    history_laws();
}

/// No call but one that queues a request changes which was queued last, or a deadline.
pub fn calls_keep_the_newest_request()
    ensures { CallsKeepNewest }
{}

/// No call moves the clock past its own moment, and a request that is queued waits no longer than it may.
pub fn calls_keep_the_clock()
    ensures clock { CallsKeepTheClock }
    ensures queued { QueuedDeadlines }
{}
