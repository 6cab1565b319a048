//! Sessions that end, by a call or by their time.
ghost use Rattle.std.specs.Prelude.{◌≡◌, ◌<◌, IfOk, OnOk, vec_len};
ghost use Rattle.std.specs.List.{slice_get};
ghost use Rattle.grid_types.specs.Calls.{Call};
ghost use Rattle.hub_core.specs.HubView.{past};
ghost use Rattle.hub_core.specs.Serves.{MayCall};
ghost use Rattle.loop_node.specs.LinkedNodes.{nodes_reached};
ghost use Rattle.grid_simulate.specs.World.{world_of, called};
ghost use Rattle.grid_simulate.specs.Actions.{EndsCall, EndsAt, EndsOf, Quits, QuitsIf, Expires};
ghost use Rattle.grid_simulate.specs.Held.{IsSound};
ghost use Rattle.grid_simulate.specs.Looks.{Asked, Looked};

use crate::draws::{count_of, draw_place};
use crate::lists::take_out;
use crate::simulation::{Kept, Simulation};
use grid_outside::NodeLink;
use grid_types::{Moment, NoMemory};
use hub_core::{Closing, Ending, Expiring};
use loop_node::LoopNodes;
use node_client::{SessionPath, quit_request, was_sent};
use std::alloc::Global;

/// Asks the node of the closing to end its session. Err is out of memory: it was not asked.
fn ask_to_end(alloc: Global, closing: &Closing, nodes: &mut LoopNodes) -> Result<(), NoMemory>
    ensures { OnOk result (Asked closing.now (nodes_reached nodes.old) (nodes_reached nodes.new)) }
{
    let path = SessionPath::of(&closing.session());
    let came = nodes.exchange(alloc, &closing.address(), &quit_request(path.as_bytes()));
    if was_sent(&came) {
        Ok(())
    } else {
        Err(NoMemory)
    }
}

/// What a look for an idle session came to.
#[derive(Clone, Copy)]
enum Idle {
    /// One was ended.
    Ended,
    /// There is none.
    Over,
}

impl Simulation {
    /// Has the session of the closing ended at its node, and frees its slot in any case. Err is out of memory.
    fn quit(&mut self, alloc: Global, closing: Closing) -> Result<(), NoMemory>
        requires sound { IsSound self.old }
        requires good { MayCall (past self.old.hub) 0 (Call.freed closing) }
        ensures sound { IsSound self.new }
        ensures moment { self.new.moment ≡ self.old.moment }
        ensures acts { OnOk result (Quits closing (world_of self.old) (world_of self.new)) }
    {
        let asked = ask_to_end(alloc, &closing, &mut self.nodes);
        self.hub.freed(closing);
        asked
    }

    /// The same, but the node is asked only where that is called for.
    fn quit_if_wanted(&mut self, alloc: Global, closing: Closing) -> Result<(), NoMemory>
        requires sound { IsSound self.old }
        requires good { MayCall (past self.old.hub) 0 (Call.freed closing) }
        ensures sound { IsSound self.new }
        ensures moment { self.new.moment ≡ self.old.moment }
        ensures acts { OnOk result (QuitsIf closing.quit closing (world_of self.old)
            (world_of self.new)) }
    {
        if closing.quit() {
            return self.quit(alloc, closing);
        }
        self.hub.freed(closing);
        Ok(())
    }

    /// Ends a session, has it ended at its node, and frees its slot.
    fn end_kept(&mut self, alloc: Global, kept: &Kept) -> Result<(), NoMemory>
        requires { IsSound self.old }
        ensures sound { IsSound self.new }
        ensures moment { self.new.moment ≡ self.old.moment }
        ensures acts { OnOk result (EndsCall (world_of self.old)
            (Call.end kept.now.session kept.now.binding) (world_of self.new)) }
    {
        self.hub.room()?;
        match self
            .hub
            .end(&kept.session, kept.binding, Moment(self.moment))
        {
            Ending::Ended(closing) => self.quit(alloc, closing),
            Ending::NoSession => Ok(()),
        }
    }

    /// Takes the session at a place out and ends it.
    fn end_at(&mut self, alloc: Global, place: usize) -> Result<(), NoMemory>
        requires sound { IsSound self.old }
        requires within { place < vec_len self.old.sessions }
        ensures sound { IsSound self.new }
        ensures moment { self.new.moment ≡ self.old.moment }
        ensures acts { OnOk result (EndsAt (world_of self.old) place
            (slice_get self.old.sessions.items place) (world_of self.new)) }
    {
        let kept = take_out(&mut self.sessions, place);
        self.end_kept(alloc, &kept)
    }

    pub(super) fn end_one(&mut self, alloc: Global) -> Result<(), NoMemory>
        requires { IsSound self.old }
        ensures sound { IsSound self.new }
        ensures moment { self.new.moment ≡ self.old.moment }
        ensures acts { OnOk result (EndsOf (world_of self.old) self.old.sessions.items
            (world_of self.new)) }
    {
        let count = count_of(&self.sessions);
        if count == 0 {
            return Ok(());
        }
        let place = draw_place(&mut self.number, count);
        self.end_at(alloc, place)
    }

    /// Ends one idle session, if there is one.
    fn expire_one(&mut self, alloc: Global) -> Result<Idle, NoMemory>
        requires { IsSound self.old }
        ensures sound { IsSound self.new }
        ensures moment { self.new.moment ≡ self.old.moment }
        ensures acts { IfOk result (λ idle. Looked idle (world_of self.old) (world_of self.new)) }
    {
        self.hub.room()?;
        match self.hub.expire(Moment(self.moment)) {
            Expiring::Expired(closing) => {
                self.quit_if_wanted(alloc, closing)?;
                Ok(Idle::Ended)
            }
            Expiring::Nothing => Ok(Idle::Over),
        }
    }

    /// Ends the idle sessions one after the other.
    fn expire_all(&mut self, alloc: Global) -> Result<(), NoMemory>
        requires { IsSound self.old }
        ensures sound { IsSound self.new }
        ensures moment { self.new.moment ≡ self.old.moment }
        ensures acts { OnOk result (Expires (world_of self.old) (world_of self.new)) }
    {
        // Each turn but the last writes entries, and the journal never has so many.
        for look in 0..u64::MAX {
            match self.expire_one(alloc)? {
                Idle::Ended => {}
                Idle::Over => return Ok(()),
            }
        }
        Err(NoMemory)
    }

    pub(super) fn sweep(&mut self, alloc: Global) -> Result<(), NoMemory>
        requires { IsSound self.old }
        ensures sound { IsSound self.new }
        ensures moment { self.new.moment ≡ self.old.moment }
        ensures acts { OnOk result (Expires (called (world_of self.old) Call.sweep)
            (world_of self.new)) }
    {
        self.hub.room()?;
        self.hub.sweep(Moment(self.moment));
        self.expire_all(alloc)
    }
}
