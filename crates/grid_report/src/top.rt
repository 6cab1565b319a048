//! The top call.
ghost use Rattle.std.specs.Prelude.{◌≡◌, ◌↔◌, None, Some};
ghost use Rattle.grid_outside.specs.Counts.{Rose};
ghost use Rattle.grid_log.specs.declared.words.AskedLog.{AskedLog};
ghost use Rattle.grid_log.specs.Logs.{LogEnds, Waits, input_of, output_of, start_at};
ghost use Rattle.grid_log.specs.Past.{no_past};
ghost use Rattle.grid_log.specs.Words.{asked_by};
ghost use Rattle.grid_report.specs.declared.words.Report.{Report};
ghost use Rattle.grid_report.specs.Reports.{ReportEnds};
ghost use Rattle.grid_report.specs.Words.{report_of};

use crate::telling::report;
use crate::words::report_of;
use grid_log::log_main;
use grid_outside::{Clock, Sink, Source};
use grid_types::Text;
use std::alloc::Global;

/// Does what the words say, which stand behind the program's name: `--metrics` writes the metrics of the input's history, `--page`
/// a page that shows what there is behind it, and other words what they ask for of a log.
///
/// The statuses: 0 the input is a journal up to its end; 2 no entry begins behind those that were told; 3 the input is cut off,
/// in its head or in its last entry; 4 it is no journal; 9 it has more bytes than are looked at; 5 a read failed; 6 a write
/// failed; 7 memory was wanted. For words that do not fit: 8, and nothing is read or written.
pub fn report_main<S: Source, K: Sink, C: Clock>(
    alloc: Global,
    words: &[Text],
    input: &mut S,
    output: &mut K,
    clock: &mut C,
) -> u8
    ensures words { (result ≡ 8) ↔ ((report_of words.now ≡ None) × (asked_by words.now ≡ None)) }
    ensures untouched { result ≡ 8 → (input.new ≡ input.old) × (output.new ≡ output.old) }
    ensures reported { (report : Report) → report_of words.now ≡ Some report → ReportEnds report
        (input_of (S.view input.old).given (S.view input.old).ends (S.view input.old).faults)
        (input_of (S.view input.new).given (S.view input.new).ends (S.view input.new).faults)
        (output_of (K.view output.old).taken (K.view output.old).faults)
        (output_of (K.view output.new).taken (K.view output.new).faults) result }
    ensures logged { (asked : AskedLog) → report_of words.now ≡ None → asked_by words.now ≡ Some asked →
        LogEnds asked.form (start_at no_past
        (input_of (S.view input.old).given (S.view input.old).ends (S.view input.old).faults))
        (input_of (S.view input.new).given (S.view input.new).ends (S.view input.new).faults)
        (output_of (K.view output.old).taken (K.view output.old).faults)
        (output_of (K.view output.new).taken (K.view output.new).faults) result }
    ensures waits { (asked : AskedLog) → report_of words.now ≡ None → asked_by words.now ≡ Some asked →
        Waits asked.pauses
        (input_of (S.view input.old).given (S.view input.old).ends (S.view input.old).faults)
        (input_of (S.view input.new).given (S.view input.new).ends (S.view input.new).faults)
        (C.view clock.old) (C.view clock.new) result }
    ensures read { result ≡ 5 → Rose (S.view input.old).faults (S.view input.new).faults }
    ensures write { result ≡ 6 → Rose (K.view output.old).faults (K.view output.new).faults }
{
    match report_of(words) {
        Some(asked) => report(alloc, asked, input, output),
        None => log_main(alloc, words, input, output, clock),
    }
}
