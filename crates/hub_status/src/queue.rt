//! The waiting requests.
ghost use Rattle.std.specs.Prelude.{◌≡◌, ◌++◌, IfOk, OnOk, map, string_bytes};
ghost use Rattle.std.specs.List.{join_with_byte};
ghost use Rattle.hub_status.specs.Queue.{written_wait, queue_bytes};

use crate::comma::push_comma;
use grid_types::{Bytes, NoMemory, View, WaitView};
use std::alloc::Global;
use std::fmt::Write;
use wd_bodies::value_body;

/// The body that lists the waiting requests. Deadlines are in milliseconds, sizes in bytes.
pub fn queue_body(alloc: Global, view: &View) -> Result<Bytes, NoMemory>
    ensures { IfOk result (λ b. b ≡ queue_bytes view.now) }
{
    let mut text = String::from_str(alloc, "[")?;
    push_waiting(&mut text, view.waiting.items())?;
    text.push_str("]")?;
    value_body(alloc, text.as_str())
}

fn push_waiting(text: &mut String, waiting: &[WaitView]) -> Result<(), NoMemory>
    ensures { OnOk result (string_bytes text.new
        ≡ string_bytes text.old ++ join_with_byte 44 (map written_wait waiting.now)) }
{
    for (index, wait) in waiting.iter().enumerate() {
        push_comma(text, index)?;
        push_wait(text, wait)?;
    }
    Ok(())
}

fn push_wait(text: &mut String, wait: &WaitView) -> Result<(), NoMemory>
    ensures { OnOk result (string_bytes text.new ≡ string_bytes text.old ++ written_wait wait.now) }
{
    write!(
        text,
        "{{\"request\":{},\"deadline\":{}",
        wait.request, wait.deadline.0
    )?;
    write!(
        text,
        ",\"choices\":{},\"bytes\":{}}}",
        wait.choices, wait.bytes
    )?;
    Ok(())
}
