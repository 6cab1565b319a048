//! The passes of the hub, which all come from the first.
ghost use Rattle.std.specs.Prelude.{◌≡◌, ◌≤◌, ◌+◌, [], All, IfOk, IfSome, OnOk, Result, vec_len, vec_capacity};
ghost use Rattle.hub_cell.specs.Passes.{IsOf, spares_of};

use grid_types::NoMemory;
use hub_cell::{Pass, SharedHub};
use std::sync::Wait;

/// One more pass, which comes from the first.
pub(crate) fn another<R: Wait>(rt: &R, hub: &SharedHub, first: &mut Pass) -> Result<Pass, NoMemory>
    requires own { IsOf hub.now first.old }
    ensures own { IsOf hub.now first.new }
    ensures another { IfOk result (λ p. IsOf hub.now p) }
    ensures spares { spares_of first.old ≤ spares_of first.new + 1 }
{
    match hub.split(rt, first) {
        Ok(pass) => Ok(pass),
        Err(_) => Err(NoMemory),
    }
}

/// As many passes as are wanted, where there is room for them, or fewer where it is out of memory.
pub(crate) fn split_off<R: Wait>(
    rt: &R,
    hub: &SharedHub,
    first: &mut Pass,
    passes: &mut Vec<Pass>,
    count: usize,
) -> Result<(), NoMemory>
    requires own { IsOf hub.now first.old }
    requires room { (passes.old.items ≡ []) × (count ≤ vec_capacity passes.old) }
    requires spares { count ≤ spares_of first.old }
    ensures own { IsOf hub.now first.new }
    ensures each { All (IsOf hub.now) passes.new.items }
    ensures spares { spares_of first.old ≤ spares_of first.new + count }
{
    for _ in 0..count {
        passes.push_reserved(another(rt, hub, first)?);
    }
    Ok(())
}

/// One more pass, without a reader of its own, which comes from this one. None: the hub is spent or out of memory.
pub(crate) fn bare<R: Wait>(rt: &R, hub: &SharedHub, pass: &mut Pass) -> Option<Pass>
    requires own { IsOf hub.now pass.old }
    ensures own { IsOf hub.now pass.new }
    ensures bare { IfSome result (IsOf hub.now) }
{
    hub.split_bare(rt, pass).ok()
}

/// Takes one of the passes.
pub(crate) fn next_pass(hub: &SharedHub, passes: &mut Vec<Pass>) -> Option<Pass>
    requires { All (IsOf hub.now) passes.old.items }
    ensures own { IfSome result (IsOf hub.now) }
    ensures rest { All (IsOf hub.now) passes.new.items }
{
    passes.pop()
}

/// Puts a pass behind the others. One that finds no room is let go.
fn keep_pass(hub: &SharedHub, passes: &mut Vec<Pass>, pass: Pass)
    requires all { All (IsOf hub.now) passes.old.items }
    requires own { IsOf hub.now pass }
    ensures { All (IsOf hub.now) passes.new.items }
{
    drop(passes.push(pass));
}

/// As many passes without a reader of their own as can be had, up to so many.
pub(crate) fn bare_passes<R: Wait>(
    rt: &R,
    hub: &SharedHub,
    first: &mut Pass,
    passes: &mut Vec<Pass>,
    count: usize,
)
    requires own { IsOf hub.now first.old }
    requires none { passes.old.items ≡ [] }
    ensures own { IsOf hub.now first.new }
    ensures each { All (IsOf hub.now) passes.new.items }
{
    for _ in 0..count {
        if let Some(pass) = bare(rt, hub, first) {
            keep_pass(hub, passes, pass);
        }
    }
}
