//! The rows of calls, each with what it takes to be spelled.
ghost use Rattle.std.specs.Prelude.{◌≡◌, IfOk};
ghost use Rattle.grid_journal.specs.declared.rows.Row.TheVariants as row;
ghost use Rattle.grid_journal.specs.Fits.{FitsEight};
ghost use Rattle.grid_journal.specs.RowSpelled.{row_bytes, RowFits};

use grid_journal::{Row, session_fits, why_fits, write_row};
use grid_types::{Bytes, FailWhy, Moment, NoMemory, NodeNo, ReqNo, SessionId, SlotId};
use std::alloc::Global;

/// The number of a moment is a u64.
pub(crate) fn moment_fits(at: Moment)
    ensures { FitsEight at.0 }
{
    let _number = at.0;
}

pub(crate) fn beat_row(alloc: Global, node: NodeNo, at: Moment) -> Result<Bytes, NoMemory>
    ensures bytes { IfOk result (λ b. b ≡ row_bytes (row.Beat node at)) }
    ensures fits { RowFits (row.Beat node at) }
{
    moment_fits(at);
    write_row(alloc, &Row::Beat { node, at })
}

pub(crate) fn drain_row(alloc: Global, node: NodeNo, at: Moment) -> Result<Bytes, NoMemory>
    ensures bytes { IfOk result (λ b. b ≡ row_bytes (row.Drain node at)) }
    ensures fits { RowFits (row.Drain node at) }
{
    moment_fits(at);
    write_row(alloc, &Row::Drain { node, at })
}

pub(crate) fn remove_row(alloc: Global, node: NodeNo, at: Moment) -> Result<Bytes, NoMemory>
    ensures bytes { IfOk result (λ b. b ≡ row_bytes (row.Remove node at)) }
    ensures fits { RowFits (row.Remove node at) }
{
    moment_fits(at);
    write_row(alloc, &Row::Remove { node, at })
}

pub(crate) fn poll_row(alloc: Global, request: ReqNo, at: Moment) -> Result<Bytes, NoMemory>
    ensures bytes { IfOk result (λ b. b ≡ row_bytes (row.Poll request at)) }
    ensures fits { RowFits (row.Poll request at) }
{
    moment_fits(at);
    write_row(alloc, &Row::Poll { request, at })
}

pub(crate) fn dispatch_row(alloc: Global, at: Moment) -> Result<Bytes, NoMemory>
    ensures bytes { IfOk result (λ b. b ≡ row_bytes (row.Dispatch at)) }
    ensures fits { RowFits (row.Dispatch at) }
{
    moment_fits(at);
    write_row(alloc, &Row::Dispatch { at })
}

pub(crate) fn end_row(
    alloc: Global,
    session: &SessionId,
    binding: ReqNo,
    at: Moment,
) -> Result<Bytes, NoMemory>
    ensures bytes { IfOk result (λ b. b ≡ row_bytes (row.End session.now binding at)) }
    ensures fits { RowFits (row.End session.now binding at) }
{
    moment_fits(at);
    session_fits(session);
    write_row(
        alloc,
        &Row::End {
            session: *session,
            binding,
            at,
        },
    )
}

pub(crate) fn touch_row(
    alloc: Global,
    session: &SessionId,
    binding: ReqNo,
    at: Moment,
) -> Result<Bytes, NoMemory>
    ensures bytes { IfOk result (λ b. b ≡ row_bytes (row.Touch session.now binding at)) }
    ensures fits { RowFits (row.Touch session.now binding at) }
{
    moment_fits(at);
    session_fits(session);
    write_row(
        alloc,
        &Row::Touch {
            session: *session,
            binding,
            at,
        },
    )
}

pub(crate) fn freed_row(alloc: Global, slot: SlotId) -> Result<Bytes, NoMemory>
    ensures bytes { IfOk result (λ b. b ≡ row_bytes (row.Freed slot)) }
    ensures fits { RowFits (row.Freed slot) }
{
    write_row(alloc, &Row::Freed { slot })
}

pub(crate) fn sweep_row(alloc: Global, at: Moment) -> Result<Bytes, NoMemory>
    ensures bytes { IfOk result (λ b. b ≡ row_bytes (row.Sweep at)) }
    ensures fits { RowFits (row.Sweep at) }
{
    moment_fits(at);
    write_row(alloc, &Row::Sweep { at })
}

pub(crate) fn expire_row(alloc: Global, at: Moment) -> Result<Bytes, NoMemory>
    ensures bytes { IfOk result (λ b. b ≡ row_bytes (row.Expire at)) }
    ensures fits { RowFits (row.Expire at) }
{
    moment_fits(at);
    write_row(alloc, &Row::Expire { at })
}

pub(crate) fn clear_row(alloc: Global, at: Moment) -> Result<Bytes, NoMemory>
    ensures bytes { IfOk result (λ b. b ≡ row_bytes (row.Clear at)) }
    ensures fits { RowFits (row.Clear at) }
{
    moment_fits(at);
    write_row(alloc, &Row::Clear { at })
}

pub(crate) fn fail_row(
    alloc: Global,
    request: ReqNo,
    why: &FailWhy,
    at: Moment,
) -> Result<Bytes, NoMemory>
    ensures bytes { IfOk result (λ b. b ≡ row_bytes (row.Fail request why.now at)) }
    ensures fits { RowFits (row.Fail request why.now at) }
{
    moment_fits(at);
    why_fits(why);
    write_row(
        alloc,
        &Row::Fail {
            request,
            why: *why,
            at,
        },
    )
}
