//! What came of a contact with a hub or a driver, for whoever is told of it.
ghost use Rattle.std.specs.Prelude.{◌≡◌};
ghost use Rattle.node_signs.specs.Signs.{contact_of};

use grid_outside::{ExchangeFault, Reply};
use std::fmt;

/// What came of an exchange that was made. Its `Display` goes behind the name of who was asked.
#[derive(Clone, Copy, Debug, PartialEq, Eq)]
pub enum Contact {
    /// It answered with this status.
    Answered(u16),
    /// What it answered is no HTTP.
    NotHttp,
    Unreachable,
}

impl Contact {
    /// None: out of memory, in which the exchange was not made.
    pub fn of(came: &Result<Reply, ExchangeFault>) -> Option<Contact>
        ensures { result ≡ contact_of came.now }
    {
        match came {
            Ok(Reply::Http(reply)) => Some(Contact::Answered(reply.status)),
            Ok(Reply::NotHttp(_)) => Some(Contact::NotHttp),
            Err(ExchangeFault::Unreachable) => Some(Contact::Unreachable),
            Err(ExchangeFault::Memory) => None,
        }
    }
}

impl fmt::Display for Contact {
    fn fmt<W: fmt::Write>(&self, f: &mut fmt::Formatter<W>) -> fmt::Result {
        match self {
            Contact::Answered(status) => write!(f, "answers with status {status}"),
            Contact::NotHttp => f.write_str("answers with what is no HTTP"),
            Contact::Unreachable => f.write_str("can't be reached"),
        }
    }
}
