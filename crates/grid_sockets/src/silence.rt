//! How long nothing has gone over a connection.
ghost use Rattle.std.specs.Prelude.{◌≡◌, ◌-◌, nat_le, None, Some};
ghost use Rattle.grid_sockets.specs.Silences.{begun};

/// Since when a call has found nothing there, in milliseconds of the machine's clock.
#[derive(Clone, Copy)]
pub(crate) struct Silence {
    since: Option<u64>,
}

impl Silence {
    pub(crate) const NONE: Silence = Silence { since: None };

    /// Something went over the connection.
    pub(crate) fn end(&mut self)
        ensures { self.new.since ≡ None }
    {
        self.since = None;
    }

    /// Whether nothing has gone over the connection for so long. It begins to count where it is asked first.
    pub(crate) fn has_lasted(&mut self, now: u64, ms: u64) -> bool
        ensures lasted { result ≡ nat_le ms (now - begun self.old.since now) }
        ensures since { self.new.since ≡ Some (begun self.old.since now) }
    {
        let since = self.since.unwrap_or(now);
        self.since = Some(since);
        now.saturating_sub(since) >= ms
    }
}
