//! A connection that waits.
ghost use Rattle.hub_conn.specs.Talk.{HasNoSpare, IsRested};

use crate::talk::Talk;

impl Talk {
    /// Gives back the memory that it can do without until more bytes come: that of buffers whose bytes are answered, and the table
    /// of paths, which the next request makes again. It stands for what it stood for, and wants the same. Takes no memory.
    pub fn rest(&mut self)
        ensures rested { IsRested self.old self.new }
        ensures gives { HasNoSpare self.new }
    {
        self.inbox.rest();
        self.router = None;
    }
}
