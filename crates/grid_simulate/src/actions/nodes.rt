//! The nodes' signs of life, and the clearing of the queue.
ghost use Rattle.std.specs.Prelude.{◌≡◌, None, OnOk};
ghost use Rattle.grid_types.specs.Calls.{Call};
ghost use Rattle.grid_types.specs.Lists.{numbers_from};
ghost use Rattle.grid_simulate.specs.World.{world_of, called, draw, drawn};
ghost use Rattle.grid_simulate.specs.Actions.{beaten, cleared_or_beaten};
ghost use Rattle.grid_simulate.specs.Held.{IsSound};

use crate::draws::draw;
use crate::simulation::Simulation;
use grid_types::{Moment, NoMemory, NodeNo};

/// How many nodes there are, numbered from 1.
const NODES: NodeNo = 8;

impl Simulation {
    fn beat(&mut self, node: NodeNo) -> Result<(), NoMemory>
        requires { IsSound self.old }
        ensures sound { IsSound self.new }
        ensures moment { self.new.moment ≡ self.old.moment }
        ensures acts { OnOk result (world_of self.new
            ≡ called (world_of self.old) (Call.beat node None)) }
    {
        self.hub.room()?;
        self.hub.beat(node, Moment(self.moment));
        Ok(())
    }

    fn beat_all(&mut self) -> Result<(), NoMemory>
        requires { IsSound self.old }
        ensures sound { IsSound self.new }
        ensures moment { self.new.moment ≡ self.old.moment }
        ensures acts { OnOk result (world_of self.new
            ≡ beaten (numbers_from 1 8) (world_of self.old)) }
    {
        for i in 0..NODES {
            self.beat(i + 1)?;
        }
        Ok(())
    }

    fn clear(&mut self) -> Result<(), NoMemory>
        requires { IsSound self.old }
        ensures sound { IsSound self.new }
        ensures moment { self.new.moment ≡ self.old.moment }
        ensures acts { OnOk result (world_of self.new ≡ called (world_of self.old) Call.clear) }
    {
        self.hub.room()?;
        self.hub.clear(Moment(self.moment));
        Ok(())
    }

    pub(super) fn clear_or_beat(&mut self) -> Result<(), NoMemory>
        requires { IsSound self.old }
        ensures sound { IsSound self.new }
        ensures moment { self.new.moment ≡ self.old.moment }
        ensures acts { OnOk result (world_of self.new
            ≡ cleared_or_beaten (draw (world_of self.old) 20) (drawn (world_of self.old))) }
    {
        let kind = draw(&mut self.number, 20);
        if kind == 0 {
            return self.clear();
        }
        self.beat_all()
    }
}
