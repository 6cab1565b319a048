//! A door as what hands out links, and no more of it.
ghost use Rattle.std.specs.Prelude.{◌≡◌, ◌≤◌, None, IfOk};
ghost use Rattle.grid_outside.specs.Counts.{Rose, HasCause};
ghost use Rattle.grid_outside.specs.Told.{DoorView};

use grid_outside::{Door, Failed};

/// What hands out the links that come in. It stands for a door in what runs threads: a closure may go to a thread with one whose links
/// are a parameter, and with none whose links the door names.
pub(crate) trait Accepts<L> {
    /// What the door tells.
    ghost view: { Self → DoorView };

    /// The next link that comes in, which is waited for. None says that the door was closed.
    fn next_link(&mut self) -> Result<Option<L>, Failed>
        ensures cause { HasCause (view self.old).faults (view self.new).faults result }
        ensures closed { IfOk result (λ link. link ≡ None →
            Rose (view self.old).ends (view self.new).ends) }
        ensures ends { (view self.old).ends ≤ (view self.new).ends }
        ensures bound { (view self.new).bound ≡ (view self.old).bound }
        ensures host { (view self.new).host ≡ (view self.old).host };
}

impl<D: Door> Accepts<D::L> for D {
    ghost view = { D.view };

    fn next_link(&mut self) -> Result<Option<D::L>, Failed> {
        self.accept()
    }
}
