//! A law that no call states, as the contract of a function that does nothing.
ghost use Rattle.hub_core.specs.Ahead.{QuietCallsPublishNothing};

/// A call that binds no session, ends none and lets no node lapse publishes nothing.
pub fn quiet_calls_publish_nothing()
    ensures { QuietCallsPublishNothing }
{}
