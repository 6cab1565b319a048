//! The summary as text.
ghost use Rattle.std.specs.Prelude.{◌≡◌, ◌++◌, IfOk, OnOk, string_bytes};
ghost use Rattle.grid_simulate.specs.Texts.{line, summary_text};

use crate::summary::Summary;
use grid_types::{NoMemory, Text};
use itoa::Buffer;
use std::alloc::Global;

/// Puts a line last: a name, a space and a decimal number.
fn push_line(text: &mut String, name: &str, number: u64) -> Result<(), NoMemory>
    ensures { OnOk result (string_bytes text.new ≡ string_bytes text.old ++ line name.now number) }
{
    let mut buffer = Buffer::new();
    text.push_str(name)?;
    text.push_str(" ")?;
    text.push_str(buffer.format(number))?;
    text.push_str("\n")?;
    Ok(())
}

/// The summary's eleven lines: the number, and the counts by their names.
pub fn summary_text(alloc: Global, number: u64, summary: &Summary) -> Result<Text, NoMemory>
    ensures { IfOk result (λ text. text ≡ summary_text number summary.now) }
{
    let mut text = String::new(alloc);
    push_line(&mut text, "simulate", number)?;
    push_line(&mut text, "queued", summary.queued)?;
    push_line(&mut text, "created", summary.created)?;
    push_line(&mut text, "timed out", summary.timed_out)?;
    push_line(&mut text, "refused", summary.refused)?;
    push_line(&mut text, "cleared", summary.cleared)?;
    push_line(&mut text, "waiting", summary.waiting)?;
    push_line(&mut text, "retried", summary.retried)?;
    push_line(&mut text, "ended", summary.ended)?;
    push_line(&mut text, "lapsed", summary.lapsed)?;
    push_line(&mut text, "live", summary.live)?;
    Ok(Text::from_string(text))
}
