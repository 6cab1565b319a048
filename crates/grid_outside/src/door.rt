//! Where links come from: a port that is bound and accepted at.
ghost use Rattle.std.specs.Prelude.{◌≡◌, ◌≤◌, None, Some, Result, IfOk, OnOk, OnErr};
ghost use Rattle.grid_outside.specs.Counts.{Rose, HasCause};
ghost use Rattle.grid_outside.specs.Told.{DoorView};

use crate::clock::Clock;
use crate::gate::Gate;
use crate::line::Line;
use crate::node_link::NodeLink;
use crate::source::Failed;
use std::net::IpAddr;

/// What hands out the links that come in, what many of them are waited for by, and what reaches the nodes and tells the time.
/// All four may go to other threads.
pub trait Door {
    type L: Line + Send + Drop;

    type N: NodeLink + Send + Drop;

    type C: Clock + Send + Drop;

    type G: Gate<L = Self::L, C = Self::C> + Send + Drop;

    /// How often it failed to be bound, to accept or to give a gate, how often it was found closed, the address of the machine that
    /// it was set to last, and the port that it was bound at last. A count stays at 2^64 - 1 once it is there.
    ghost view: { Self → DoorView };

    /// From the next bind on links come in at this address of the machine.
    fn listen_at(&mut self, host: IpAddr)
        ensures { view self.new ≡ record (view self.old) { host = Some host } };

    /// From now on links come in at this port. After a failure it is bound where it was.
    fn bind(&mut self, port: u16) -> Result<(), Failed>
        ensures cause { HasCause (view self.old).faults (view self.new).faults result }
        ensures ends { (view self.old).ends ≤ (view self.new).ends }
        ensures bound { OnOk result ((view self.new).bound ≡ Some port) }
        ensures unbound { OnErr result ((view self.new).bound ≡ (view self.old).bound) }
        ensures host { (view self.new).host ≡ (view self.old).host };

    /// The next link that comes in, which is waited for. None says that the door was closed.
    fn accept(&mut self) -> Result<Option<Self::L>, Failed>
        ensures cause { HasCause (view self.old).faults (view self.new).faults result }
        ensures closed { IfOk result (λ link. link ≡ None →
            Rose (view self.old).ends (view self.new).ends) }
        ensures ends { (view self.old).ends ≤ (view self.new).ends }
        ensures bound { (view self.new).bound ≡ (view self.old).bound }
        ensures host { (view self.new).host ≡ (view self.old).host };

    /// One more of what links are waited for by. Err: the system has no room for it.
    fn gate(&mut self) -> Result<Self::G, Failed>
        ensures cause { HasCause (view self.old).faults (view self.new).faults result }
        ensures ends { (view self.old).ends ≤ (view self.new).ends }
        ensures bound { (view self.new).bound ≡ (view self.old).bound }
        ensures host { (view self.new).host ≡ (view self.old).host };

    /// One more of what reaches the nodes.
    fn nodes(&mut self) -> Self::N
        ensures faults { (view self.old).faults ≤ (view self.new).faults }
        ensures ends { (view self.old).ends ≤ (view self.new).ends }
        ensures bound { (view self.new).bound ≡ (view self.old).bound }
        ensures host { (view self.new).host ≡ (view self.old).host };

    /// One more of what tells the time.
    fn clock(&mut self) -> Self::C
        ensures faults { (view self.old).faults ≤ (view self.new).faults }
        ensures ends { (view self.old).ends ≤ (view self.new).ends }
        ensures bound { (view self.new).bound ≡ (view self.old).bound }
        ensures host { (view self.new).host ≡ (view self.old).host };
}
