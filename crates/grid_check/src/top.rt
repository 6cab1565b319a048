//! The top call.
ghost use Rattle.std.specs.Prelude.{◌≡◌, ◌↔◌, ◌<◌, ◌^◌, ℕ, true, false};
ghost use Rattle.grid_outside.specs.Counts.{Rose};
ghost use Rattle.grid_check.specs.Running.{CheckEnds};
ghost use Rattle.grid_check.specs.Making.{MakeEnds};
ghost use Rattle.grid_check.specs.Words.{Fit, IsCheck, IsMake};

use crate::making::make_journal;
use crate::telling::run_check;
use grid_outside::{Sink, Source};
use grid_types::Text;
use play_words::read_numbered;
use std::alloc::Global;

/// The status where the words do not fit.
const OTHER_WORDS: u8 = 8;

/// Whether the words are the word `check` alone.
fn is_check(words: &[Text]) -> bool
    ensures some { result ≡ true → IsCheck words.now }
    ensures none { result ≡ false → ¬ IsCheck words.now }
{
    let [word] = words else {
        return false;
    };
    word.as_str() == "check"
}

/// Does what the words say, which stand behind the program's name. `check` reads the input as a journal and writes a line with
/// the verdict on it; `make` and a decimal number below 2^64 without a sign or a leading zero writes the journal of the
/// number's simulation, and reads nothing. Other words do not fit, and nothing is read or written.
///
/// The statuses of `check`: 0 the input is the journal of a legal history; 1 an entry is not permitted; 2 no entry begins so;
/// 3 the input is cut off; 4 it is no journal; 9 it has more bytes than are looked at; 5 a read failed. Those of `make`: 0 all
/// was written; 10 an entry is too long. Those of both: 6 a write failed; 7 memory was wanted. For other words: 8.
pub fn check_main<S: Source, K: Sink>(
    alloc: Global,
    words: &[Text],
    input: &mut S,
    output: &mut K,
) -> u8
    ensures words { (result ≡ 8) ↔ ¬ (Fit words.now) }
    ensures untouched { result ≡ 8 → (input.new ≡ input.old) × (output.new ≡ output.old) }
    ensures checked { IsCheck words.now →
        CheckEnds (S.view input.old) (S.view input.new)
        (K.view output.old) (K.view output.new) result }
    ensures made { (number : ℕ) → number < 2 ^ 64 → IsMake words.now number →
        MakeEnds number (K.view output.old) (K.view output.new) result }
    ensures unread { (number : ℕ) → number < 2 ^ 64 → IsMake words.now number →
        input.new ≡ input.old }
    ensures read { result ≡ 5 → Rose (S.view input.old).faults (S.view input.new).faults }
    ensures write { result ≡ 6 → Rose (K.view output.old).faults (K.view output.new).faults }
{
    if is_check(words) {
        return run_check(alloc, input, output);
    }
    match read_numbered(words, "make") {
        Some(number) => make_journal(alloc, number, output),
        None => OTHER_WORDS,
    }
}
