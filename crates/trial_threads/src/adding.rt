//! What one thread does with the count.
ghost use Rattle.std.specs.Prelude.{◌≡◌, ◌+◌, ◌%◌, ◌≤◌, ◌^◌, [], ◌∷◌, length, IfOk, IfErr};
ghost use Rattle.turn_cell.specs.Cells.{view_of, origin_of, first_of, IsOf, IsFree, HasTurn};
ghost use Rattle.turn_cell.specs.Steps.{looked_once, after};
ghost use Rattle.trial_threads.specs.Counts.{Counts, next_of, Adds};

use crate::counter::Counter;
use std::marker::Brand;
use std::sync::Wait;
use turn_cell::{Made, Pass, Spent, Turn, TurnCell};

/// The part of `add` that has the value. Its caller picks the entries by the history that the pass has seen then.
fn add_in<E: Made>(
    cell: &TurnCell<Counter>,
    mut turn: Turn<Counter>,
    pass: &mut Pass<Counter>,
) -> u64
    requires own { IsOf cell.now pass.old × HasTurn pass.old turn }
    requires value { Counts turn.value.count (view_of pass.old).seen
        × (turn.value.name ≡ (origin_of cell.now).name) }
    requires made { E.entries ≡ next_of (view_of pass.old) ∷ [] }
    ensures own { IsOf cell.now pass.new × IsFree pass.new }
    ensures view { view_of pass.new ≡ after (next_of (view_of pass.old) ∷ []) (view_of pass.old) }
    ensures count { result ≡ (length (view_of pass.old).seen + 1) % 2 ^ 64 }
{
    let value = turn.value();
    let count = value.count.wrapping_add(1);
    value.count = count;
    cell.leave::<E>(turn, pass);
    count
}

/// Adds 1 in a turn of its own, and answers the count then. Err: no turn is left.
pub fn add<R: Wait>(
    rt: &R,
    cell: &TurnCell<Counter>,
    pass: &mut Pass<Counter>,
) -> Result<u64, Spent>
    requires own { IsOf cell.now pass.old × IsFree pass.old }
    ensures own { IsOf cell.now pass.new × IsFree pass.new }
    ensures added { IfOk result (λ n. Adds (view_of pass.old) n (view_of pass.new)) }
    ensures spent { IfErr result (λ s. view_of pass.new ≡ looked_once (view_of pass.old)) }
{
    let turn = cell.enter(rt, pass)?;
    Ok(add_in::<Brand>(cell, turn, pass))
}

/// Adds as often as `times`. Err: no turn is left.
pub fn adds<R: Wait>(
    rt: &R,
    cell: &TurnCell<Counter>,
    mut pass: Pass<Counter>,
    times: u64,
) -> Result<Pass<Counter>, Spent>
    requires own { IsOf cell.now pass × IsFree pass }
    ensures { IfOk result (λ p. IsOf cell.entry.now p × IsFree p
        × (length (view_of p).mine ≡ length (view_of pass).mine + times)
        × ((view_of p).ended ≡ (view_of pass).ended)) }
{
    for _ in 0..times {
        add(rt, cell, &mut pass)?;
    }
    Ok(pass)
}

/// The answer of a cell whose first ticket is past the last one: it never gives a turn.
pub fn find_spent<R: Wait>(rt: &R, cell: &TurnCell<Counter>, pass: &mut Pass<Counter>) -> Spent
    requires own { IsOf cell.now pass.old × IsFree pass.old }
    requires late { 2 ^ 62 ≤ first_of cell.now }
    ensures { result.ticket ≡ first_of cell.now }
{
    match cell.enter(rt, pass) {
        Err(spent) => spent,
        Ok(_) => unreachable!(),
    }
}
