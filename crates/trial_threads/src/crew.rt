//! Many passes, each in a thread of its own.
ghost use Rattle.std.specs.Prelude.{◌≡◌, ◌+◌, ◌<◌, [], All, length, vec_len, IfOk, IfSome};
ghost use Rattle.turn_cell.specs.Cells.{view_of, IsOf, IsFree};
ghost use Rattle.turn_cell.specs.Steps.{IsExact};
ghost use Rattle.trial_threads.specs.Crew.{EachHas, IsNew, HasMade, MadeOrSpent};

use crate::adding::adds;
use crate::counter::Counter;
use std::alloc::Global;
use std::sync::Wait;
use std::thread;
use std::thread::Threads;
use turn_cell::{Pass, Spent, TurnCell};

fn another<R: Wait>(
    rt: &R,
    cell: &TurnCell<Counter>,
    pass: &mut Pass<Counter>,
) -> Option<Pass<Counter>>
    requires { IsOf cell.now pass.old × IsFree pass.old }
    ensures own { IsOf cell.now pass.new × IsFree pass.new
        × ((view_of pass.new).ended ≡ (view_of pass.old).ended)
        × ((view_of pass.new).mine ≡ (view_of pass.old).mine) }
    ensures new { IfSome result (IsNew cell.now) }
{
    let turn = cell.enter(rt, pass).ok()?;
    cell.split(turn, pass).ok()
}

/// Joins a pass that has made as many entries as `count`.
fn rejoin(cell: &TurnCell<Counter>, pass: &mut Pass<Counter>, other: Pass<Counter>, count: u64)
    requires own { IsOf cell.now pass.old × IsFree pass.old
        × EachHas count (view_of pass.old).ended }
    requires other { HasMade cell.now count other }
    ensures own { IsOf cell.now pass.new × IsFree pass.new × EachHas count (view_of pass.new).ended
        × IsExact (view_of pass.new) }
    ensures more { (length (view_of pass.new).ended ≡ length (view_of pass.old).ended + 1)
        × ((view_of pass.new).mine ≡ (view_of pass.old).mine) }
{
    cell.join(pass, other);
}

fn split_off<R: Wait>(
    rt: &R,
    alloc: Global,
    cell: &TurnCell<Counter>,
    pass: &mut Pass<Counter>,
    count: usize,
) -> Option<Vec<Pass<Counter>>>
    requires { IsOf cell.now pass.old × IsFree pass.old × ((view_of pass.old).ended ≡ [])
        × ((view_of pass.old).mine ≡ []) }
    ensures own { IsOf cell.now pass.new × IsFree pass.new × ((view_of pass.new).ended ≡ [])
        × ((view_of pass.new).mine ≡ []) }
    ensures new { IfSome result (λ v. (vec_len v ≡ count) × All (IsNew cell.now) v.items) }
{
    let mut passes = Vec::new(alloc);
    for _ in 0..count {
        passes.push(another(rt, cell, pass)?).ok()?;
    }
    Some(passes)
}

fn rejoin_all(
    cell: &TurnCell<Counter>,
    pass: &mut Pass<Counter>,
    others: Vec<Result<Pass<Counter>, Spent>>,
    times: u64,
) -> Result<(), Spent>
    requires own { IsOf cell.now pass.old × IsFree pass.old × ((view_of pass.old).ended ≡ [])
        × ((view_of pass.old).mine ≡ []) }
    requires others { All (MadeOrSpent cell.now times) others.items }
    ensures { IfOk result (λ _. EachHas times (view_of pass.new).ended
        × (length (view_of pass.new).ended ≡ vec_len others) × ((view_of pass.new).mine ≡ [])) }
{
    for other in others {
        rejoin(cell, pass, other?, times);
    }
    Ok(())
}

/// Each pass adds as often as `times`, in a thread of its own.
fn all_add<R: Threads + Wait + Sync>(
    rt: &R,
    cell: &TurnCell<Counter>,
    passes: Vec<Pass<Counter>>,
    times: u64,
) -> Option<Vec<Result<Pass<Counter>, Spent>>>
    requires { All (IsNew cell.now) passes.items }
    ensures { IfSome result (λ v. (vec_len v ≡ vec_len passes)
        × All (MadeOrSpent cell.entry.now times) v.items) }
{
    let done = thread::map_vec(
        rt,
        passes,
        &|pass: Pass<Counter>| -> Result<Pass<Counter>, Spent>
            requires { IsNew cell.now pass }
            ensures { MadeOrSpent cell.entry.now times result }
        { adds(rt, cell, pass, times) },
    );
    done.ok()
}

/// Lets `count` passes add `times` times each, each pass in a thread of its own, and joins them to the pass that it answers.
/// None where memory runs out.
pub fn many_add<R: Threads + Wait + Sync>(
    rt: &R,
    alloc: Global,
    count: usize,
    times: u64,
) -> Option<Pass<Counter>>
    ensures { IfSome result (λ p. (length (view_of p).ended ≡ count)
        × EachHas times (view_of p).ended × ((view_of p).mine ≡ [])) }
{
    let start = Counter { count: 0, name: 7 };
    let (cell, mut pass) = TurnCell::new(alloc, start, 0).ok()?;
    let passes = split_off(rt, alloc, &cell, &mut pass, count)?;
    let passes = all_add(rt, &cell, passes, times)?;
    rejoin_all(&cell, &mut pass, passes, times).ok()?;
    Some(pass)
}
