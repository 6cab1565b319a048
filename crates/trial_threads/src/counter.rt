//! The value.
use turn_cell::Stands;

/// A count, which stands for a history of as many entries. No turn changes its name, which is its mark.
#[derive(Drop)]
pub struct Counter {
    pub count: u64,
    pub name: u64,
}

impl Stands for Counter {
    ghost use Rattle.std.specs.Prelude.{ℕ};
    ghost use Rattle.trial_threads.specs.Counts.{Counts};

    ghost stands = { λ counter log. Counts counter.count log };

    ghost Mark = { ℕ };

    ghost mark = { λ counter. counter.name };
}
