//! Bytes are written to a sink.
ghost use Rattle.std.specs.Prelude.{OnErr, OnOk};
ghost use Rattle.grid_outside.specs.Counts.{HasCause};
ghost use Rattle.grid_outside.specs.Told.{Gains, TookFront};

use crate::sink::Sink;
use crate::source::Failed;

/// Writes all bytes, or up to the first write that fails.
pub fn write_all<K: Sink>(output: &mut K, bytes: &[u8]) -> Result<(), Failed>
    ensures ok { OnOk result (Gains (K.view output.old).taken (K.view output.new).taken bytes.now) }
    ensures err { OnErr result
        (TookFront (K.view output.old).taken (K.view output.new).taken bytes.now) }
    ensures cause { HasCause (K.view output.old).faults (K.view output.new).faults result }
{
    let mut done = 0;
    'pieces: while done < bytes.len() {
        match output.write(&bytes[done..]) {
            Ok(count) => done += count,
            Err(failed) => return Err(failed),
        }
    }
    Ok(())
}
