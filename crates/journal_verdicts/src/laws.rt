//! A law that no call states, as the contract of a function that does nothing.
ghost use Rattle.journal_verdicts.specs.Verdicts.{TextsHaveOneVerdict};

use grid_journal::one_spelling;

/// Two verdicts that both hold of the same bytes are one.
pub fn texts_have_one_verdict()
    ensures { TextsHaveOneVerdict }
{
    // For the proof alone: no entry begins another, and no head does.
    one_spelling();
}
