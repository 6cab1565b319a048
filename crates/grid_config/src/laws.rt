//! What the definitions say among themselves. The functions do nothing: their contracts are the laws.
ghost use Rattle.std.specs.Prelude.{◌≡◌};
ghost use Rattle.grid_config.specs.Configured.{NothingIsLeftOut, OneReading};
ghost use Rattle.grid_config.specs.declared.reading.TheConstants.{MOST_TEXT_BYTES};

/// A text says one thing, want of memory aside. So `config_words` gives what the text says wherever it says something, and
/// each fault exactly where that is the text's fault.
pub fn texts_say_one_thing()
    ensures { OneReading }
{}

/// Nothing in a document without a fault is left out: each key of each section is of a row, whose kind takes what stands for it.
pub fn nothing_is_left_out()
    ensures { NothingIsLeftOut }
{}

/// The number behind the name of the limit, since definitions cite the name: bytes of a text.
pub fn fixed_limits()
    ensures { MOST_TEXT_BYTES ≡ 65536 }
{}
