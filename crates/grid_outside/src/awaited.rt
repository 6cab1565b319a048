//! A connection that is waited for, for a thread that serves one at a time.
ghost use Rattle.std.specs.Prelude.{◌≡◌, ℕ, ◌<◌, ◌≤◌, length, IfOk};
ghost use Rattle.grid_outside.specs.Told.{LinkView};

use crate::gate::Gate;
use crate::line::{Line, Reading, Writing};
use crate::link::Link;
use crate::source::Failed;
use std::alloc::Global;

/// How long the gate waits at once, in milliseconds. A line that is silent for too long is found then.
const WAIT_MS: u64 = 1_000;

/// For how many places there is room. One link stands at its gate, so more are not awaited.
const ROOM: usize = 8;

/// Where the link stands.
const PLACE: usize = 0;

/// A line of which each call waits by a gate.
#[derive(Drop)]
pub struct AwaitedLink<G: Gate + Drop> {
    gate: G,
    line: G::L,
    ready: Vec<usize>,
    read_faults: u64,
    write_faults: u64,
    ends: u64,
}

impl<G: Gate + Drop> AwaitedLink<G> {
    ghost use Rattle.grid_outside.specs.Awaited.{HasNone};

    /// The link of a connection, waited for by this gate. Err hands the gate back: there is no room, and the link is closed.
    pub fn new(alloc: Global, mut gate: G, link: G::L) -> Result<Self, G>
        ensures view { IfOk result (λ l. G.L.view l.line ≡ G.L.view link) }
        ensures none { IfOk result (λ l. HasNone l.read_faults l.write_faults l.ends) }
    {
        let Ok(ready) = Vec::with_capacity(alloc, ROOM) else {
            return Err(gate);
        };
        match gate.admit(PLACE, link) {
            Ok((line, _)) => Ok(AwaitedLink {
                gate,
                line,
                ready,
                read_faults: 0,
                write_faults: 0,
                ends: 0,
            }),
            Err(_) => Err(gate),
        }
    }

    /// Ends the connection, and hands the gate back.
    pub fn into_gate(self) -> G {
        self.gate
    }
}

impl<G: Gate + Drop> Link for AwaitedLink<G> {
    ghost use Rattle.grid_outside.specs.Awaited.{awaited_view};

    ghost view = { λ l. awaited_view (G.L.view l.line) l.read_faults l.write_faults l.ends };

    ghost Same = { λ x y. Unit {0} };

    ghost same_refl = { λ x. tt };

    ghost same_trans = { λ x y z p q. tt };

    fn read(&mut self, into: &mut [u8]) -> Result<usize, Failed> {
        for _ in 0..u64::MAX {
            match self.line.read(into) {
                Reading::Bytes(count) => return Ok(count),
                Reading::End => {
                    self.ends = self.ends.saturating_add(1);
                    return Ok(0);
                }
                Reading::NotNow => {
                    self.ready.clear();
                    self.gate.wait(WAIT_MS, &mut self.ready);
                }
                Reading::Failed => break,
            }
        }
        self.read_faults = self.read_faults.saturating_add(1);
        Err(Failed)
    }

    fn write(&mut self, from: &[u8]) -> Result<usize, Failed> {
        for _ in 0..u64::MAX {
            match self.line.write(from) {
                Writing::Bytes(count) => return Ok(count),
                Writing::NotNow => {
                    self.ready.clear();
                    self.gate.wait(WAIT_MS, &mut self.ready);
                }
                Writing::Failed => break,
            }
        }
        self.write_faults = self.write_faults.saturating_add(1);
        Err(Failed)
    }
}
