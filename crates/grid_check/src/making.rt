//! The journal of a simulation, written to an output.
ghost use Rattle.grid_check.specs.Making.{MakeEnds};

use crate::telling::NO_MEMORY;
use crate::writing::write_journal;
use grid_outside::Sink;
use grid_simulate::{simulate, simulated_config};
use grid_types::NoMemory;
use std::alloc::Global;

/// Makes the simulation of a number and writes its whole journal: the status of a program that does just that. It is 0 where
/// all of the journal was written, 6 where a write failed, 7 out of memory, and 10 where an entry of the journal has more
/// bytes than an entry may have. Where not all was written, what was written is a front of the journal, which for 7 and 10
/// ends with an entry or the head, or is empty.
pub fn make_journal<K: Sink>(alloc: Global, number: u64, output: &mut K) -> u8
    ensures { MakeEnds number (K.view output.old) (K.view output.new) result }
{
    match simulate(alloc, number) {
        Ok(simulated) => {
            write_journal(alloc, &simulated_config(), simulated.hub.journal(), output)
        }
        Err(NoMemory) => NO_MEMORY,
    }
}
