//! Many passes, each in a thread of its own.
ghost use Rattle.std.specs.Prelude.{◌≡◌, ◌+◌, ◌<◌, ◌∷◌, [], true, All, length, vec_len, IfOk, IfSome};
ghost use Rattle.grid_types.specs.Permitted.{is_well_sized};
ghost use Rattle.grid_types.specs.Config.{IsValid};
ghost use Rattle.hub_cell.specs.Passes.{knows, IsOf};
ghost use Rattle.hub_clients.specs.Beats.{EachHas, IsListing, IsNew, HasMade, MadeOrNot};

use grid_types::{HubConfig, Moment, NodeNo, Registration};
use hub_cell::{Pass, SharedHub};
use hub_core::{Beating, Registering};
use std::alloc::Global;
use std::sync::Wait;
use std::thread;
use std::thread::Threads;

/// Why passes did not beat to their end.
#[derive(Clone, Copy, Debug)]
pub enum Fault {
    Spent,
    NoNode,
    Memory,
}

/// Beats as often as `times`, and gives the pass back where each beat was taken.
fn beat_often<R: Wait>(
    rt: &R,
    hub: &SharedHub,
    mut pass: Pass,
    node: NodeNo,
    times: u64,
) -> Result<Pass, Fault>
    requires { IsOf hub.now pass }
    ensures { IfOk result (λ p. IsOf hub.entry.now p
        × (length (knows p).mine ≡ length (knows pass).mine + times)
        × ((knows p).ended ≡ (knows pass).ended)) }
{
    for _ in 0..times {
        match hub.beat(rt, &mut pass, node, Moment(0)) {
            Ok(Beating::Beaten) => {}
            Ok(Beating::NoNode) => return Err(Fault::NoNode),
            Err(_) => return Err(Fault::Spent),
        }
    }
    Ok(pass)
}

/// Lists the node as number 1.
fn list_first<R: Wait>(rt: &R, hub: &SharedHub, pass: &mut Pass, node: Registration) -> Option<()>
    requires { IsOf hub.now pass.old × (is_well_sized node ≡ true) × ((knows pass.old).mine ≡ []) }
    ensures { IfSome result (λ _. IsOf hub.now pass.new
        × IsListing (knows pass.old).number node (knows pass.new).mine
        × ((knows pass.new).ended ≡ (knows pass.old).ended)) }
{
    match hub.register(rt, pass, node, Moment(0)) {
        Ok(Registering::Registered(1)) => Some(()),
        _ => None,
    }
}

fn another<R: Wait>(rt: &R, hub: &SharedHub, pass: &mut Pass) -> Option<Pass>
    requires { IsOf hub.now pass.old }
    ensures own { IfSome result (λ _. IsOf hub.now pass.new
        × ((knows pass.new).ended ≡ (knows pass.old).ended)
        × ((knows pass.new).mine ≡ (knows pass.old).mine)) }
    ensures new { IfSome result (IsNew hub.now) }
{
    hub.split(rt, pass).ok()
}

/// Joins a pass that has made as many entries as `count`.
fn rejoin(hub: &SharedHub, pass: &mut Pass, other: Pass, count: u64)
    requires own { IsOf hub.now pass.old × EachHas count (knows pass.old).ended }
    requires other { HasMade hub.now count other }
    ensures own { IsOf hub.now pass.new × EachHas count (knows pass.new).ended }
    ensures more { (length (knows pass.new).ended ≡ length (knows pass.old).ended + 1)
        × ((knows pass.new).mine ≡ (knows pass.old).mine) }
{
    hub.join(pass, other);
}

fn split_off<R: Wait>(
    rt: &R,
    alloc: Global,
    hub: &SharedHub,
    pass: &mut Pass,
    count: usize,
) -> Option<Vec<Pass>>
    requires { IsOf hub.now pass.old × ((knows pass.old).ended ≡ []) }
    ensures own { IfSome result (λ _. IsOf hub.now pass.new × ((knows pass.new).ended ≡ [])
        × ((knows pass.new).mine ≡ (knows pass.old).mine)) }
    ensures new { IfSome result (λ v. (vec_len v ≡ count) × All (IsNew hub.now) v.items) }
{
    let mut passes = Vec::new(alloc);
    for _ in 0..count {
        passes.push(another(rt, hub, pass)?).ok()?;
    }
    Some(passes)
}

fn rejoin_all(
    hub: &SharedHub,
    pass: &mut Pass,
    others: Vec<Result<Pass, Fault>>,
    times: u64,
) -> Result<(), Fault>
    requires own { IsOf hub.now pass.old × ((knows pass.old).ended ≡ []) }
    requires others { All (MadeOrNot hub.now times) others.items }
    ensures { IfOk result (λ _. IsOf hub.now pass.new × EachHas times (knows pass.new).ended
        × (length (knows pass.new).ended ≡ vec_len others)
        × ((knows pass.new).mine ≡ (knows pass.old).mine)) }
{
    for other in others {
        rejoin(hub, pass, other?, times);
    }
    Ok(())
}

fn all_beat<R: Threads + Wait + Sync>(
    rt: &R,
    hub: &SharedHub,
    passes: Vec<Pass>,
    times: u64,
) -> Option<Vec<Result<Pass, Fault>>>
    requires { All (IsNew hub.now) passes.items }
    ensures { IfSome result (λ v. (vec_len v ≡ vec_len passes)
        × All (MadeOrNot hub.entry.now times) v.items) }
{
    let done = thread::map_vec(
        rt,
        passes,
        &|pass: Pass| -> Result<Pass, Fault>
            requires { IsNew hub.now pass }
            ensures { MadeOrNot hub.entry.now times result }
        { beat_often(rt, hub, pass, 1, times) },
    );
    done.ok()
}

/// Lists the node as number 1, lets so many passes beat it in threads of their own, and joins them.
fn beat_all<R: Threads + Wait + Sync>(
    rt: &R,
    alloc: Global,
    hub: &SharedHub,
    pass: &mut Pass,
    node: Registration,
    count: usize,
    times: u64,
) -> Option<()>
    requires { IsOf hub.now pass.old × (is_well_sized node ≡ true) × ((knows pass.old).ended ≡ [])
        × ((knows pass.old).mine ≡ []) }
    ensures ended { IfSome result (λ _. (length (knows pass.new).ended ≡ count)
        × EachHas times (knows pass.new).ended) }
    ensures mine { IfSome result (λ _. IsListing (knows pass.old).number node
        (knows pass.new).mine) }
{
    list_first(rt, hub, pass, node)?;
    let passes = split_off(rt, alloc, hub, pass, count)?;
    let passes = all_beat(rt, hub, passes, times)?;
    rejoin_all(hub, pass, passes, times).ok()
}

/// Lists the node as number 1, and lets `count` passes beat it `times` times each, each pass in a thread of its own. The pass that
/// is answered has joined them all, and its own entry is the listing alone.
pub fn many_beat<R: Threads + Wait + Sync>(
    rt: &R,
    alloc: Global,
    node: Registration,
    count: usize,
    times: u64,
) -> Option<Pass>
    requires sized { is_well_sized node ≡ true }
    requires few { count < 256 }
    ensures ended { IfSome result (λ p. (length (knows p).ended ≡ count)
        × EachHas times (knows p).ended) }
    ensures mine { IfSome result (λ p. IsListing 0 node (knows p).mine) }
{
    let passes = count as u32 + 1;
    let (hub, mut pass) = SharedHub::new(rt, alloc, HubConfig::default(), 0, passes).ok()?;
    let done = beat_all(rt, alloc, &hub, &mut pass, node, count, times);
    hub.close(rt);
    done?;
    Some(pass)
}
