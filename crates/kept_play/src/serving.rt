//! A connection that is served.
ghost use Rattle.std.specs.Prelude.{◌≡◌, ◌≤◌, IfSome, IsErrOf};
ghost use Rattle.grid_keeper.specs.Keeping.{IsOpen, WentAlong};
ghost use Rattle.grid_outside.specs.Counts.{Rose};
ghost use Rattle.kept_play.specs.Serving.{KeptTo, conn_of, end_of, told_of};
ghost use Rattle.kept_play.specs.declared.serving.KeptEnd.TheVariants as ends;
ghost use Rattle.local_driver.specs.Served.{ServedLocally, outside_of};
ghost use Rattle.local_driver.specs.World.{world_of};

use grid_keeper::{KeptFault, KeptHub, nothing_was_called};
use grid_outside::{Clock, Link, NodeLink};
use grid_types::NodeNo;
use local_driver::{ConnFault, Served, serve_by};
use row_keeper::Keeper;
use std::alloc::Global;

/// Why a connection was not served to the end of its input or of its requests.
#[derive(Clone, Copy, Debug, PartialEq, Eq)]
pub enum KeptEnd {
    /// The connection has ended so. The hub is open.
    Conn(ConnFault),
    /// The keeper failed. The hub is closed.
    Keeper,
    /// There was no memory for keeping a call. The hub is closed.
    Memory,
}

fn end_of(fault: KeptFault) -> KeptEnd
    ensures { result ≡ end_of fault }
{
    match fault {
        KeptFault::Keeper => KeptEnd::Keeper,
        KeptFault::Memory => KeptEnd::Memory,
    }
}

fn told(ended: Result<Served, ConnFault>) -> Result<Served, KeptEnd>
    ensures { result ≡ told_of ended }
{
    match ended {
        Ok(served) => Ok(served),
        Err(fault) => Err(KeptEnd::Conn(fault)),
    }
}

/// Serves one connection to its end by a hub that keeps its calls. Where the connection comes to its end, it is served as
/// `serve_local` serves it by a hub of one thread. At each moment a crash leaves the rows of a front of the hub's journal of whole
/// calls, with the entries of every call whose answer was handed on. `Keeper` and `Memory` tell that the hub is closed: the call that
/// met the fault got no answer, and the connection was left where it stood.
pub fn serve_kept<K: Keeper, L: Link, N: NodeLink, C: Clock>(
    alloc: Global,
    hub: &mut KeptHub<K>,
    own: &[NodeNo],
    link: &mut L,
    nodes: &mut N,
    clock: &mut C,
) -> Result<Served, KeptEnd>
    requires { IsOpen K.disk hub.old }
    ensures served { IfSome (conn_of result) (λ ended. ServedLocally N.gives C.gives own.now
        (outside_of (world_of hub.old.hub nodes.old clock.old (C.view clock.old))
        (L.view link.old)) ended
        (outside_of (world_of hub.new.hub nodes.new clock.new (C.view clock.new))
        (L.view link.new))) }
    ensures kept { KeptTo K.disk K.faults hub.old result hub.new }
    ensures went { WentAlong K.disk hub.old hub.new }
    ensures later { K.faults hub.old.keeper ≤ K.faults hub.new.keeper }
    ensures cause { IsErrOf result ends.Keeper →
        Rose (K.faults hub.old.keeper) (K.faults hub.new.keeper) }
    ensures same { L.Same link.old link.new }
{
    nothing_was_called(hub);
    match serve_by(alloc, hub, own, link, nodes, clock) {
        Ok(ended) => told(ended),
        Err(fault) => Err(end_of(fault)),
    }
}
