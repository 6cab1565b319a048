//! What the statuses of a play over a keeper tell.
ghost use Rattle.std.specs.Prelude.{◌≡◌};
ghost use Rattle.kept_play.specs.Kept.{end_status, fault_status, open_status};

use crate::serving::KeptEnd;
use grid_keeper::{KeptFault, OpenFault};
use grid_play::status_of;
use local_driver::Served;

/// The words do not fit.
pub(crate) const REFUSED: u8 = 2;

/// Memory was wanted and there was none.
pub(crate) const NO_MEMORY: u8 = 5;

/// The keeper failed.
const KEEPER_FAILED: u8 = 8;

/// A row that was kept can't be made again.
const BAD_ROW: u8 = 9;

pub(crate) fn fault_status(fault: KeptFault) -> u8
    ensures { result ≡ fault_status fault }
{
    match fault {
        KeptFault::Keeper => KEEPER_FAILED,
        KeptFault::Memory => NO_MEMORY,
    }
}

pub(crate) fn open_status(fault: OpenFault) -> u8
    ensures { result ≡ open_status fault }
{
    match fault {
        OpenFault::Read => KEEPER_FAILED,
        OpenFault::BadRow { .. } => BAD_ROW,
        OpenFault::Memory => NO_MEMORY,
    }
}

pub(crate) fn end_status(ended: Result<Served, KeptEnd>) -> u8
    ensures { result ≡ end_status ended }
{
    match ended {
        Ok(served) => status_of(Ok(served)),
        Err(KeptEnd::Conn(fault)) => status_of(Err(fault)),
        Err(KeptEnd::Keeper) => KEEPER_FAILED,
        Err(KeptEnd::Memory) => NO_MEMORY,
    }
}
