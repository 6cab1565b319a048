//! A door that tells on standard error what became of its bind.
ghost use Rattle.std.specs.Prelude.{◌≡◌, ◌≤◌};

use grid_outside::{Door, Failed};
use std::net::IpAddr;

/// Does what another door does, and says whether it listens.
#[derive(Drop)]
pub struct ToldBind<R: Eprint + Drop, D: Door + Drop> {
    runtime: R,
    program: &'static str,
    door: D,
}

impl<R: Eprint + Drop, D: Door + Drop> ToldBind<R, D> {
    /// Tells of the door under the program's name.
    pub fn new(runtime: R, program: &'static str, door: D) -> Self {
        ToldBind {
            runtime,
            program,
            door,
        }
    }
}

impl<R: Eprint + Drop, D: Door + Drop> Door for ToldBind<R, D> {
    type L = D::L;

    type N = D::N;

    type C = D::C;

    type G = D::G;

    ghost view = { λ d. D.view d.door };

    fn listen_at(&mut self, host: IpAddr) {
        self.door.listen_at(host);
    }

    fn bind(&mut self, port: u16) -> Result<(), Failed> {
        let bound = self.door.bind(port);
        let program = self.program;
        // It listens just as well where nothing can be written.
        let _ = match bound {
            Ok(()) => eprintln!(self.runtime; "{program}: listening on port {port}"),
            Err(_) => eprintln!(self.runtime;
                "{program}: no listening on port {port}; is it in use?"
            ),
        };
        bound
    }

    fn accept(&mut self) -> Result<Option<D::L>, Failed> {
        self.door.accept()
    }

    fn gate(&mut self) -> Result<D::G, Failed> {
        self.door.gate()
    }

    fn nodes(&mut self) -> D::N {
        self.door.nodes()
    }

    fn clock(&mut self) -> D::C {
        self.door.clock()
    }
}
