//! The rows of calls that hand lists in. Want of memory is told before the call is made.
ghost use Rattle.std.specs.Prelude.{◌≡◌, IfOk, OnOk};
ghost use Rattle.grid_journal.specs.declared.rows.Row.TheVariants as row;
ghost use Rattle.grid_journal.specs.RowSpelled.{row_bytes, RowFits};

use crate::small_rows::moment_fits;
use grid_journal::{
    caps_fit, choices_fit, registration_fits, session_fits, write_bind, write_enqueue,
    write_register,
};
use grid_types::{Bytes, Caps, Choices, Moment, NoMemory, Registration, ReqNo, SessionId};
use std::alloc::Global;

pub(crate) fn register_row(
    alloc: Global,
    node: &Registration,
    at: Moment,
) -> Result<Bytes, NoMemory>
    ensures bytes { IfOk result (λ b. b ≡ row_bytes (row.Register node.now at)) }
    ensures fits { OnOk result (RowFits (row.Register node.now at)) }
{
    moment_fits(at);
    registration_fits(node)?;
    write_register(alloc, node, at)
}

pub(crate) fn enqueue_row(alloc: Global, choices: &Choices, at: Moment) -> Result<Bytes, NoMemory>
    ensures bytes { IfOk result (λ b. b ≡ row_bytes (row.Enqueue choices.now at)) }
    ensures fits { OnOk result (RowFits (row.Enqueue choices.now at)) }
{
    moment_fits(at);
    choices_fit(choices)?;
    write_enqueue(alloc, choices, at)
}

pub(crate) fn bind_row(
    alloc: Global,
    request: ReqNo,
    session: SessionId,
    caps: &Caps,
    at: Moment,
) -> Result<Bytes, NoMemory>
    ensures bytes { IfOk result (λ b. b ≡ row_bytes (row.Bind request session caps.now at)) }
    ensures fits { OnOk result (RowFits (row.Bind request session caps.now at)) }
{
    moment_fits(at);
    session_fits(&session);
    caps_fit(caps)?;
    write_bind(alloc, request, session, caps, at)
}
