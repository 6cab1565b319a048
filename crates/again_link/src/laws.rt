//! What the definitions say among themselves. The function does nothing: its contract is a law.
ghost use Rattle.std.specs.Prelude.{◌≡◌, ◌++◌, ℕ, List, Some};
ghost use Rattle.again_link.specs.Again.{without};

/// Before any of them are handed out, the link tells what was given before the bytes that were read last.
pub fn last_bytes_are_untold()
    ensures { (told again : List ℕ) → without again (Some (told ++ again)) ≡ Some told }
{}
