//! A connection that no hub serves is answered.
ghost use Rattle.std.specs.Prelude.{◌≡◌, List, ℕ, IfOk, true};
ghost use Rattle.conn_script.specs.Responses as texts;
ghost use Rattle.conn_script.specs.Messages.{refusal};
ghost use Rattle.conn_script.specs.declared.wants.End.TheVariants as ends;
ghost use Rattle.wd_bodies.specs.declared.code.ErrorCode.TheVariants as code;
ghost use Rattle.grid_teams_shared.specs.Telling.{Tells};

use crate::writing::write_all;
use conn_script::refusal as refused;
use conn_script::responses::failure;
use grid_outside::Link;
use grid_types::{Bytes, NoMemory};
use http_frames::FrameFault;
use hub_serving::{ConnFault, End, Served};
use std::alloc::Global;
use wd_bodies::ErrorCode;

/// Writes the response, behind which the connection ends.
fn answer<L: Link>(
    link: &mut L,
    response: Result<Bytes, NoMemory>,
    end: End,
) -> Result<Served, ConnFault>
    ensures tells { (wanted : List ℕ) → IfOk response (λ bytes. bytes ≡ wanted) →
        Tells wanted end (L.view link.old) result (L.view link.new) }
    ensures same { L.Same link.old link.new }
{
    match response {
        Ok(response) => match write_all(link, response.as_bytes()) {
            Ok(()) => Ok(Served {
                frames: 0,
                end,
                short: false,
            }),
            Err(_) => Err(ConnFault::Write),
        },
        Err(_) => Err(ConnFault::Memory),
    }
}

/// Tells a client that belongs to no team.
pub(crate) fn tell<L: Link>(alloc: Global, link: &mut L, message: &str) -> Result<Served, ConnFault>
    ensures tells { Tells (texts.bytes_of (texts.failure code.InvalidArgument message.now) true) ends.Asked
        (L.view link.old) result (L.view link.new) }
    ensures same { L.Same link.old link.new }
{
    let response = failure(alloc, ErrorCode::InvalidArgument, message, true);
    answer(link, response, End::Asked)
}

/// Tells a client whose head is refused.
pub(crate) fn refuse<L: Link>(
    alloc: Global,
    link: &mut L,
    why: FrameFault,
) -> Result<Served, ConnFault>
    ensures tells { Tells (texts.bytes_of (refusal why) true) (ends.Refused why 0)
        (L.view link.old) result (L.view link.new) }
    ensures same { L.Same link.old link.new }
{
    let response = refused(alloc, why);
    answer(link, response, End::Refused { why, at: 0 })
}
