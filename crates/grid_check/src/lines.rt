//! The line and the status that tell a verdict.
ghost use Rattle.std.specs.Prelude.{◌≡◌, ◌++◌, IfOk, decimal};
ghost use Rattle.grid_check.specs.Running.{verdict_line, verdict_status};

use grid_types::{NoMemory, Text};
use itoa::Buffer;
use journal_verdicts::Verdict;
use std::alloc::Global;

/// A text with a decimal number in its midst.
fn numbered(alloc: Global, front: &str, number: u64, behind: &str) -> Result<Text, NoMemory>
    ensures { IfOk result (λ text. text ≡ front.now ++ (decimal number ++ behind.now)) }
{
    let mut buffer = Buffer::new();
    let mut text = String::new(alloc);
    text.push_str(front)?;
    text.push_str(buffer.format(number))?;
    text.push_str(behind)?;
    Ok(Text::from_string(text))
}

/// The line that tells the verdict.
pub(crate) fn line_of(alloc: Global, verdict: &Verdict) -> Result<Text, NoMemory>
    ensures { IfOk result (λ line. line ≡ verdict_line verdict.now) }
{
    match verdict {
        Verdict::Legal { entries } => numbered(alloc, "legal: ", *entries, " entries\n"),
        Verdict::Illegal { entry } => numbered(alloc, "illegal: entry ", *entry, "\n"),
        Verdict::Bad { at } => numbered(alloc, "bad: byte ", *at, "\n"),
        Verdict::Cut { at } => numbered(alloc, "cut: byte ", *at, "\n"),
        Verdict::NotJournal => Text::of(alloc, "not a journal\n"),
        Verdict::Limit => Text::of(alloc, "limit\n"),
    }
}

/// The exit status that tells the verdict.
pub(crate) fn status_of(verdict: &Verdict) -> u8
    ensures { result ≡ verdict_status verdict.now }
{
    match verdict {
        Verdict::Legal { .. } => 0,
        Verdict::Illegal { .. } => 1,
        Verdict::Bad { .. } => 2,
        Verdict::Cut { .. } => 3,
        Verdict::NotJournal => 4,
        Verdict::Limit => 9,
    }
}
