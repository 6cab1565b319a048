//! A connection of which calls need not wait.
ghost use Rattle.std.specs.Prelude.{length};
ghost use Rattle.grid_outside.specs.Lines.{LooksSo, ReadsSo, WritesSo};
ghost use Rattle.grid_outside.specs.Told.{LinkView};

/// What came of a read.
#[derive(Clone, Copy, Debug, PartialEq, Eq)]
pub enum Reading {
    /// So many bytes: at least one where there was room for one.
    Bytes(usize),
    End,
    /// Nothing is there now.
    NotNow,
    Failed,
}

/// What came of a write.
#[derive(Clone, Copy, Debug, PartialEq, Eq)]
pub enum Writing {
    /// So many bytes were taken: at least one where there was one.
    Bytes(usize),
    /// Nothing can be taken now.
    NotNow,
    Failed,
}

/// Both ways of a connection, as a `Link` has them. A call that finds nothing there may answer `NotNow`, and then all is as
/// before. Once a gate has taken the line in no call waits; up to then each may, as those of one from a TCP door do. No
/// clause says when anything is there.
pub trait Line {
    /// What it tells, as a link's.
    ghost view: { Self → LinkView };

    /// Puts some bytes that are there at the front of `into`. Where it is not `Bytes`, `into` may hold anything.
    fn read(&mut self, into: &mut [u8]) -> Reading
        ensures { ReadsSo result (length into.old) into.new (view self.old) (view self.new) };

    /// Takes some bytes from the front of `from`.
    fn write(&mut self, from: &[u8]) -> Writing
        ensures { WritesSo result from.now (view self.old) (view self.new) };

    /// Whether the other side has closed or reset the connection. The look takes no byte and never waits. True is told as
    /// a read that failed; false says nothing.
    fn gone(&mut self) -> bool
        ensures { LooksSo result (view self.old) (view self.new) };
}
