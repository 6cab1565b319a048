//! A door whose exchanges with a hub are told of on standard error.
ghost use Rattle.std.specs.Prelude.{◌≡◌, ◌≤◌};

use crate::nodes::ToldNodes;
use grid_outside::{Door, Failed};
use node_signs::{Contact, SERVED};
use std::net::IpAddr;

/// Does what another door does, and its exchanges with a hub are told of.
#[derive(Drop)]
pub struct ToldHub<R: Eprint + Copy + Send + Drop, D: Door + Drop> {
    runtime: R,
    program: &'static str,
    door: D,
}

impl<R: Eprint + Copy + Send + Drop, D: Door + Drop> ToldHub<R, D> {
    /// Tells of the door's exchanges under the program's name.
    pub fn new(runtime: R, program: &'static str, door: D) -> Self {
        ToldHub {
            runtime,
            program,
            door,
        }
    }
}

impl<R: Eprint + Copy + Send + Drop, D: Door + Drop> Door for ToldHub<R, D> {
    type L = D::L;

    type N = ToldNodes<R, D::N>;

    type C = D::C;

    type G = D::G;

    ghost view = { λ d. D.view d.door };

    fn listen_at(&mut self, host: IpAddr) {
        self.door.listen_at(host);
    }

    fn bind(&mut self, port: u16) -> Result<(), Failed> {
        self.door.bind(port)
    }

    fn accept(&mut self) -> Result<Option<D::L>, Failed> {
        self.door.accept()
    }

    fn gate(&mut self) -> Result<D::G, Failed> {
        self.door.gate()
    }

    /// Until the hub's first answer it is taken for one that serves, so that only trouble is told.
    fn nodes(&mut self) -> ToldNodes<R, D::N> {
        let served = Some(Contact::Answered(SERVED));
        ToldNodes::new(self.runtime, self.program, self.door.nodes(), served)
    }

    fn clock(&mut self) -> D::C {
        self.door.clock()
    }
}
