//! Rows: what a hub keeps of each call that made entries.
ghost use Rattle.std.specs.Prelude.{◌≡◌, ◌∷◌, ◌≤◌, true, length, drop, OnOk};
ghost use Rattle.grid_journal.specs.Forms.{Reads};
ghost use Rattle.grid_journal.specs.Outs.{Grows};
ghost use Rattle.grid_journal.specs.RowForms.{row_form, row_only, row_at_least, row_shortest};
ghost use Rattle.grid_journal.specs.RowSpelled.{row_bytes};

use crate::counts::read_kind;
use crate::layout::Layout;
use crate::out::Out;
use crate::spell::Spell;
use crate::stop::Stop;
use grid_types::{
    Caps, Choices, FailWhy, Moment, NoMemory, NodeNo, Registration, ReqNo, SessionId, SlotId,
};
use std::alloc::Global;

/// A call of the hub of one thread, with its moment. Of a token it tells the request, or the slot.
#[derive(Debug, Drop)]
pub enum Row {
    /// A node registers.
    Register {
        registration: Registration,
        at: Moment,
    },
    /// A node beats.
    Beat {
        node: NodeNo,
        at: Moment,
    },
    /// A node drains.
    Drain {
        node: NodeNo,
        at: Moment,
    },
    /// A node is removed.
    Remove {
        node: NodeNo,
        at: Moment,
    },
    /// A request comes.
    Enqueue {
        choices: Choices,
        at: Moment,
    },
    /// The ticket of the request is polled.
    Poll {
        request: ReqNo,
        at: Moment,
    },
    /// The next slot is reserved.
    Dispatch {
        at: Moment,
    },
    /// A session is bound in the slot that is held for the request.
    Bind {
        request: ReqNo,
        session: SessionId,
        caps: Caps,
        at: Moment,
    },
    /// The start in the slot that is held for the request failed.
    Fail {
        request: ReqNo,
        why: FailWhy,
        at: Moment,
    },
    /// A session is used.
    Touch {
        session: SessionId,
        binding: ReqNo,
        at: Moment,
    },
    /// A session is ended.
    End {
        session: SessionId,
        binding: ReqNo,
        at: Moment,
    },
    /// A closing slot is freed.
    Freed {
        slot: SlotId,
    },
    /// The hub sweeps.
    Sweep {
        at: Moment,
    },
    /// An idle session is ended.
    Expire {
        at: Moment,
    },
    /// The queue is cleared.
    Clear {
        at: Moment,
    },
}

impl Spell for Row {
    ghost spelled = { row_bytes };

    fn write(&self, out: &mut Out) -> Result<(), NoMemory> {
        match self {
            Row::Register { registration, at } => (1u8, (registration, *at)).write(out),
            Row::Beat { node, at } => (2u8, (*node, *at)).write(out),
            Row::Drain { node, at } => (3u8, (*node, *at)).write(out),
            Row::Remove { node, at } => (4u8, (*node, *at)).write(out),
            Row::Enqueue { choices, at } => (5u8, (choices, *at)).write(out),
            Row::Poll { request, at } => (6u8, (*request, *at)).write(out),
            Row::Dispatch { at } => (7u8, *at).write(out),
            Row::Bind {
                request,
                session,
                caps,
                at,
            } => (8u8, (*request, (*session, (caps, *at)))).write(out),
            Row::Fail { request, why, at } => (9u8, (*request, (*why, *at))).write(out),
            Row::Touch {
                session,
                binding,
                at,
            } => (10u8, (*session, (*binding, *at))).write(out),
            Row::End {
                session,
                binding,
                at,
            } => (11u8, (*session, (*binding, *at))).write(out),
            Row::Freed { slot } => (12u8, *slot).write(out),
            Row::Sweep { at } => (13u8, *at).write(out),
            Row::Expire { at } => (14u8, *at).write(out),
            Row::Clear { at } => (15u8, *at).write(out),
        }
    }
}

/// The fields of `Register`, behind their kind 1.
fn read_register(alloc: Option<Global>, bytes: &[u8], at: &mut usize) -> Result<Row, Stop>
    requires { at.old ≤ length bytes.now }
    ensures within { OnOk result (at.new ≤ length bytes.now) }
    ensures reads { Reads row_form (1 ∷ drop at.old bytes.now) result (drop at.new bytes.now) }
{
    match <(Registration, u64)>::read(alloc, bytes, at) {
        Ok((registration, moment)) => Ok(Row::Register {
            registration,
            at: Moment(moment),
        }),
        Err(stop) => Err(stop),
    }
}

/// The fields of `Beat`, behind their kind 2.
fn read_beat(alloc: Option<Global>, bytes: &[u8], at: &mut usize) -> Result<Row, Stop>
    requires { at.old ≤ length bytes.now }
    ensures within { OnOk result (at.new ≤ length bytes.now) }
    ensures reads { Reads row_form (2 ∷ drop at.old bytes.now) result (drop at.new bytes.now) }
{
    match <(NodeNo, u64)>::read(alloc, bytes, at) {
        Ok((node, moment)) => Ok(Row::Beat {
            node,
            at: Moment(moment),
        }),
        Err(stop) => Err(stop),
    }
}

/// The fields of `Drain`, behind their kind 3.
fn read_drain(alloc: Option<Global>, bytes: &[u8], at: &mut usize) -> Result<Row, Stop>
    requires { at.old ≤ length bytes.now }
    ensures within { OnOk result (at.new ≤ length bytes.now) }
    ensures reads { Reads row_form (3 ∷ drop at.old bytes.now) result (drop at.new bytes.now) }
{
    match <(NodeNo, u64)>::read(alloc, bytes, at) {
        Ok((node, moment)) => Ok(Row::Drain {
            node,
            at: Moment(moment),
        }),
        Err(stop) => Err(stop),
    }
}

/// The fields of `Remove`, behind their kind 4.
fn read_remove(alloc: Option<Global>, bytes: &[u8], at: &mut usize) -> Result<Row, Stop>
    requires { at.old ≤ length bytes.now }
    ensures within { OnOk result (at.new ≤ length bytes.now) }
    ensures reads { Reads row_form (4 ∷ drop at.old bytes.now) result (drop at.new bytes.now) }
{
    match <(NodeNo, u64)>::read(alloc, bytes, at) {
        Ok((node, moment)) => Ok(Row::Remove {
            node,
            at: Moment(moment),
        }),
        Err(stop) => Err(stop),
    }
}

/// The fields of `Enqueue`, behind their kind 5.
fn read_enqueue(alloc: Option<Global>, bytes: &[u8], at: &mut usize) -> Result<Row, Stop>
    requires { at.old ≤ length bytes.now }
    ensures within { OnOk result (at.new ≤ length bytes.now) }
    ensures reads { Reads row_form (5 ∷ drop at.old bytes.now) result (drop at.new bytes.now) }
{
    match <(Choices, u64)>::read(alloc, bytes, at) {
        Ok((choices, moment)) => Ok(Row::Enqueue {
            choices,
            at: Moment(moment),
        }),
        Err(stop) => Err(stop),
    }
}

/// The fields of `Poll`, behind their kind 6.
fn read_poll(alloc: Option<Global>, bytes: &[u8], at: &mut usize) -> Result<Row, Stop>
    requires { at.old ≤ length bytes.now }
    ensures within { OnOk result (at.new ≤ length bytes.now) }
    ensures reads { Reads row_form (6 ∷ drop at.old bytes.now) result (drop at.new bytes.now) }
{
    match <(ReqNo, u64)>::read(alloc, bytes, at) {
        Ok((request, moment)) => Ok(Row::Poll {
            request,
            at: Moment(moment),
        }),
        Err(stop) => Err(stop),
    }
}

/// The fields of `Dispatch`, behind their kind 7.
fn read_dispatch(alloc: Option<Global>, bytes: &[u8], at: &mut usize) -> Result<Row, Stop>
    requires { at.old ≤ length bytes.now }
    ensures within { OnOk result (at.new ≤ length bytes.now) }
    ensures reads { Reads row_form (7 ∷ drop at.old bytes.now) result (drop at.new bytes.now) }
{
    match u64::read(alloc, bytes, at) {
        Ok(moment) => Ok(Row::Dispatch { at: Moment(moment) }),
        Err(stop) => Err(stop),
    }
}

/// The fields of `Bind`, behind their kind 8.
fn read_bind(alloc: Option<Global>, bytes: &[u8], at: &mut usize) -> Result<Row, Stop>
    requires { at.old ≤ length bytes.now }
    ensures within { OnOk result (at.new ≤ length bytes.now) }
    ensures reads { Reads row_form (8 ∷ drop at.old bytes.now) result (drop at.new bytes.now) }
{
    match <(ReqNo, (SessionId, (Caps, u64)))>::read(alloc, bytes, at) {
        Ok((request, (session, (caps, moment)))) => Ok(Row::Bind {
            request,
            session,
            caps,
            at: Moment(moment),
        }),
        Err(stop) => Err(stop),
    }
}

/// The fields of `Fail`, behind their kind 9.
fn read_fail(alloc: Option<Global>, bytes: &[u8], at: &mut usize) -> Result<Row, Stop>
    requires { at.old ≤ length bytes.now }
    ensures within { OnOk result (at.new ≤ length bytes.now) }
    ensures reads { Reads row_form (9 ∷ drop at.old bytes.now) result (drop at.new bytes.now) }
{
    match <(ReqNo, (FailWhy, u64))>::read(alloc, bytes, at) {
        Ok((request, (why, moment))) => Ok(Row::Fail {
            request,
            why,
            at: Moment(moment),
        }),
        Err(stop) => Err(stop),
    }
}

/// The fields of `Touch`, behind their kind 10.
fn read_touch(alloc: Option<Global>, bytes: &[u8], at: &mut usize) -> Result<Row, Stop>
    requires { at.old ≤ length bytes.now }
    ensures within { OnOk result (at.new ≤ length bytes.now) }
    ensures reads { Reads row_form (10 ∷ drop at.old bytes.now) result (drop at.new bytes.now) }
{
    match <(SessionId, (ReqNo, u64))>::read(alloc, bytes, at) {
        Ok((session, (binding, moment))) => Ok(Row::Touch {
            session,
            binding,
            at: Moment(moment),
        }),
        Err(stop) => Err(stop),
    }
}

/// The fields of `End`, behind their kind 11.
fn read_end(alloc: Option<Global>, bytes: &[u8], at: &mut usize) -> Result<Row, Stop>
    requires { at.old ≤ length bytes.now }
    ensures within { OnOk result (at.new ≤ length bytes.now) }
    ensures reads { Reads row_form (11 ∷ drop at.old bytes.now) result (drop at.new bytes.now) }
{
    match <(SessionId, (ReqNo, u64))>::read(alloc, bytes, at) {
        Ok((session, (binding, moment))) => Ok(Row::End {
            session,
            binding,
            at: Moment(moment),
        }),
        Err(stop) => Err(stop),
    }
}

/// The fields of `Freed`, behind their kind 12.
fn read_freed(alloc: Option<Global>, bytes: &[u8], at: &mut usize) -> Result<Row, Stop>
    requires { at.old ≤ length bytes.now }
    ensures within { OnOk result (at.new ≤ length bytes.now) }
    ensures reads { Reads row_form (12 ∷ drop at.old bytes.now) result (drop at.new bytes.now) }
{
    match <SlotId>::read(alloc, bytes, at) {
        Ok(slot) => Ok(Row::Freed { slot }),
        Err(stop) => Err(stop),
    }
}

/// The fields of `Sweep`, behind their kind 13.
fn read_sweep(alloc: Option<Global>, bytes: &[u8], at: &mut usize) -> Result<Row, Stop>
    requires { at.old ≤ length bytes.now }
    ensures within { OnOk result (at.new ≤ length bytes.now) }
    ensures reads { Reads row_form (13 ∷ drop at.old bytes.now) result (drop at.new bytes.now) }
{
    match u64::read(alloc, bytes, at) {
        Ok(moment) => Ok(Row::Sweep { at: Moment(moment) }),
        Err(stop) => Err(stop),
    }
}

/// The fields of `Expire`, behind their kind 14.
fn read_expire(alloc: Option<Global>, bytes: &[u8], at: &mut usize) -> Result<Row, Stop>
    requires { at.old ≤ length bytes.now }
    ensures within { OnOk result (at.new ≤ length bytes.now) }
    ensures reads { Reads row_form (14 ∷ drop at.old bytes.now) result (drop at.new bytes.now) }
{
    match u64::read(alloc, bytes, at) {
        Ok(moment) => Ok(Row::Expire { at: Moment(moment) }),
        Err(stop) => Err(stop),
    }
}

/// The fields of `Clear`, behind their kind 15.
fn read_clear(alloc: Option<Global>, bytes: &[u8], at: &mut usize) -> Result<Row, Stop>
    requires { at.old ≤ length bytes.now }
    ensures within { OnOk result (at.new ≤ length bytes.now) }
    ensures reads { Reads row_form (15 ∷ drop at.old bytes.now) result (drop at.new bytes.now) }
{
    match u64::read(alloc, bytes, at) {
        Ok(moment) => Ok(Row::Clear { at: Moment(moment) }),
        Err(stop) => Err(stop),
    }
}

impl Layout for Row {
    ghost form = { row_form };

    ghost least = { 7 };

    ghost allocates = { true };

    fn least() -> u64 {
        7
    }

    fn read(alloc: Option<Global>, bytes: &[u8], at: &mut usize) -> Result<Row, Stop> {
        let kind = read_kind(bytes, at, 7)?;
        match kind {
            1 => read_register(alloc, bytes, at),
            2 => read_beat(alloc, bytes, at),
            3 => read_drain(alloc, bytes, at),
            4 => read_remove(alloc, bytes, at),
            5 => read_enqueue(alloc, bytes, at),
            6 => read_poll(alloc, bytes, at),
            7 => read_dispatch(alloc, bytes, at),
            8 => read_bind(alloc, bytes, at),
            9 => read_fail(alloc, bytes, at),
            10 => read_touch(alloc, bytes, at),
            11 => read_end(alloc, bytes, at),
            12 => read_freed(alloc, bytes, at),
            13 => read_sweep(alloc, bytes, at),
            14 => read_expire(alloc, bytes, at),
            15 => read_clear(alloc, bytes, at),
            _ => Err(Stop::Wrong),
        }
    }

    ghost only = { row_only };

    ghost at_least = { row_at_least };

    ghost shortest = { row_shortest };
}
