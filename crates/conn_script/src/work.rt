//! How much a script has still to do.
ghost use Rattle.conn_script.specs.WorkLaws.{FirstIsWithin};

/// The first turn of a request leaves no more to do than a New Session that is not queued yet.
pub fn first_turns_are_within()
    ensures { FirstIsWithin }
{}
