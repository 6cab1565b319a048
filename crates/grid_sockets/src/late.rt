//! Starts that were given up.
//!
//! A node may make a session after all whose start was given up, and then nobody knows of it. So the stream is read on for a
//! while, and where a session comes, its node is asked to end it. Nobody is told what comes of that.

use crate::under_way::UnderWay;
use crate::ways::Seen;
use grid_outside::Reply;
use http_frames::NodeReply;
use mio::{Registry, Token};
use node_client::{SessionPath, quit_request, session_of};
use std::alloc::{AllocError, Global};
use std::net::Net;
use std::sync::{Arc, Mutex};
use std::time;

/// How long a start is read on, from its beginning, in milliseconds.
const READ_ON_MS: u64 = 600_000;

/// How long the end of its session may take, in milliseconds.
const END_MS: u64 = 30_000;

/// The most starts that are read on at once. Further ones are let go.
const ROOM: usize = 1_024;

/// The token of their streams, at which no seat stands.
pub(crate) const LATE: usize = usize::MAX - 1;

/// A start that was given up, or the end of its session.
#[derive(Drop)]
pub(crate) struct Late {
    under: UnderWay,
    ends: bool,
}

/// The starts that are read on.
pub(crate) type Lates = Arc<Mutex<Vec<Late>>>;

/// No start yet.
pub(crate) fn lates(alloc: Global) -> Result<Lates, AllocError> {
    let list = Mutex::new(Vec::with_capacity(alloc, ROOM)?);
    match Arc::new(alloc, list) {
        Ok(lates) => Ok(lates),
        Err(_) => Err(AllocError),
    }
}

/// How their streams are told of.
fn seen_by(registry: &Registry) -> Seen<'_> {
    Seen {
        registry,
        token: Token(LATE),
    }
}

/// Puts a start into the list that was given up just now. Where there is no room for it, it is let go.
pub(crate) fn keep_late(registry: &Registry, lates: &Lates, mut under: UnderWay) {
    if !under.prolong(seen_by(registry), READ_ON_MS) {
        return;
    }
    if let Some(mut list) = lates.try_lock() {
        if list.len() < ROOM {
            let _ = list.push(Late { under, ends: false });
        }
    }
}

impl Late {
    /// Asks the node to end the session that the reply names. None: it names none, or that can't be asked.
    fn ended<R: Net + time::Clock>(
        &self,
        runtime: &R,
        registry: &Registry,
        alloc: Global,
        reply: &NodeReply,
    ) -> Option<UnderWay> {
        let (session, _) = session_of(alloc, reply).ok()?;
        let path = SessionPath::of(&session);
        let request = quit_request(path.as_bytes());
        let seen = seen_by(registry);
        let address = self.under.address();
        UnderWay::begin(runtime, seen, alloc, address, &request, END_MS, None).ok()
    }

    /// Goes on as far as that can be done now, and says whether it is over.
    fn is_over<R: Net + time::Clock>(
        &mut self,
        runtime: &R,
        registry: &Registry,
        alloc: Global,
    ) -> bool {
        let reply = match self.under.advance(runtime, seen_by(registry), alloc) {
            Ok(None) => return false,
            Ok(Some(Reply::Http(reply))) if !self.ends => reply,
            _ => return true,
        };
        match self.ended(runtime, registry, alloc, &reply) {
            Some(under) => {
                self.under = under;
                self.ends = true;
                false
            }
            None => true,
        }
    }
}

/// Goes on with each, and lets go of what is over.
fn go_on<R: Net + time::Clock>(
    list: &mut Vec<Late>,
    runtime: &R,
    registry: &Registry,
    alloc: Global,
) {
    for at in (0..list.len()).rev() {
        if at < list.len() && list[at].is_over(runtime, registry, alloc) {
            drop(list.swap_remove(at));
        }
    }
}

/// Goes on where anything is left, and says whether anything still is.
pub(crate) fn sweep_late<R: Net + time::Clock>(
    lates: &Lates,
    runtime: &R,
    registry: &Registry,
    alloc: Global,
) -> bool {
    let Some(mut list) = lates.try_lock() else {
        return true;
    };
    if list.is_empty() {
        return false;
    }
    go_on(&mut list, runtime, registry, alloc);
    !list.is_empty()
}
