//! A value that cannot be dropped, as one that has a writer of a published map.
use std::alloc::Global;
use std::marker::Brand;
use std::sync::Wait;
use turn_cell::{Stands, TurnCell};

/// A count that has to be taken apart.
pub struct Linear {
    count: u64,
}

impl Stands for Linear {
    ghost use Rattle.trial_threads.specs.Counts.{Counts};

    ghost stands = { λ linear log. Counts linear.count log };

    ghost Mark = { Unit {0} };

    ghost mark = { λ _. tt };
}

/// Makes a cell, takes a turn that makes no entry, and ends the cell. None where memory runs out.
pub fn count_of_one_turn<R: Wait>(rt: &R, alloc: Global, first: u64) -> Option<u64> {
    match TurnCell::new(alloc, Linear { count: 0 }, first) {
        Ok((cell, mut pass)) => {
            if let Ok(turn) = cell.enter(rt, &mut pass) {
                cell.leave::<Brand>(turn, &mut pass);
            }
            let Linear { count } = cell.into_value()?;
            Some(count)
        }
        Err((Linear { count: _ }, _)) => None,
    }
}
