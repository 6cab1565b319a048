//! The top call.
ghost use Rattle.std.specs.Prelude.{◌≡◌, ◌↔◌, None, Some};
ghost use Rattle.grid_outside.specs.Counts.{Rose};
ghost use Rattle.grid_log.specs.declared.words.AskedLog.{AskedLog};
ghost use Rattle.grid_log.specs.Logs.{LogEnds, Waits, input_of, output_of, start_at};
ghost use Rattle.grid_log.specs.Past.{no_past};
ghost use Rattle.grid_log.specs.Words.{asked_by};

use crate::log::log_lines;
use crate::words::asked_by;
use grid_outside::{Clock, Sink, Source};
use grid_types::Text;
use std::alloc::Global;

/// The status where the words do not fit.
pub const OTHER_WORDS: u8 = 8;

/// Does what the words say, which stand behind the program's name: none writes the log of the input as text, `--json` as JSON,
/// `--follow`, and perhaps `--json` behind it, the same of an input that may grow: it is asked for more after each pause. Other
/// words do not fit, and nothing is read or written.
///
/// The statuses: 0 the input is a journal up to its end; 2 no entry begins behind those that were told; 3 the input is cut off,
/// in its head or in its last entry; 4 it is no journal; 9 it has more bytes than are looked at; 5 a read failed; 6 a write
/// failed; 7 memory was wanted. For other words: 8.
pub fn log_main<S: Source, K: Sink, C: Clock>(
    alloc: Global,
    words: &[Text],
    input: &mut S,
    output: &mut K,
    clock: &mut C,
) -> u8
    ensures words { (result ≡ 8) ↔ (asked_by words.now ≡ None) }
    ensures untouched { result ≡ 8 → (input.new ≡ input.old) × (output.new ≡ output.old) }
    ensures logged { (asked : AskedLog) → asked_by words.now ≡ Some asked → LogEnds asked.form
        (start_at no_past
        (input_of (S.view input.old).given (S.view input.old).ends (S.view input.old).faults))
        (input_of (S.view input.new).given (S.view input.new).ends (S.view input.new).faults)
        (output_of (K.view output.old).taken (K.view output.old).faults)
        (output_of (K.view output.new).taken (K.view output.new).faults) result }
    ensures waits { (asked : AskedLog) → asked_by words.now ≡ Some asked → Waits asked.pauses
        (input_of (S.view input.old).given (S.view input.old).ends (S.view input.old).faults)
        (input_of (S.view input.new).given (S.view input.new).ends (S.view input.new).faults)
        (C.view clock.old) (C.view clock.new) result }
    ensures read { result ≡ 5 → Rose (S.view input.old).faults (S.view input.new).faults }
    ensures write { result ≡ 6 → Rose (K.view output.old).faults (K.view output.new).faults }
{
    match asked_by(words) {
        Some(asked) => log_lines(alloc, asked.form, asked.pauses, input, output, clock),
        None => OTHER_WORDS,
    }
}
