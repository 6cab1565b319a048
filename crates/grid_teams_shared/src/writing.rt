//! Bytes are written to a link.
ghost use Rattle.std.specs.Prelude.{OnOk, OnErr};
ghost use Rattle.grid_teams_shared.specs.Links.{Took, TookFront};

use grid_outside::{Failed, Link};

/// Writes all bytes, or up to the first write that fails.
pub(crate) fn write_all<L: Link>(link: &mut L, bytes: &[u8]) -> Result<(), Failed>
    ensures ok { OnOk result (Took (L.view link.old) bytes.now (L.view link.new)) }
    ensures front { OnErr result (TookFront (L.view link.old) bytes.now (L.view link.new)) }
    ensures same { L.Same link.old link.new }
{
    let mut done = 0;
    'pieces: while done < bytes.len() {
        match link.write(&bytes[done..]) {
            Ok(count) => done += count,
            Err(fault) => return Err(fault),
        }
    }
    Ok(())
}
