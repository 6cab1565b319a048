//! Which calls find nothing there yet.
ghost use Rattle.std.specs.Prelude.{◌≡◌};
ghost use Rattle.grid_outside.specs.Counts.{one_more};

/// The numbers of the calls, from 0, that are to find nothing there, and how many were made.
#[derive(Drop)]
pub(crate) struct Waits {
    planned: Vec<u64>,
    calls: u64,
}

impl Waits {
    ghost use Rattle.grid_outside.specs.Waiting.{BeginsToWait, is_waiting};

    pub(crate) fn new(planned: Vec<u64>) -> Waits
        ensures { BeginsToWait planned.items result }
    {
        Waits { planned, calls: 0 }
    }

    /// Whether the call that begins now is to find nothing there.
    pub(crate) fn next_waits(&mut self) -> bool
        ensures waits { result ≡ is_waiting self.old }
        ensures calls { self.new.calls ≡ one_more self.old.calls }
        ensures plan { self.new.planned ≡ self.old.planned }
    {
        let call = self.calls;
        self.calls = call.saturating_add(1);
        self.planned.contains(&call)
    }
}
