//! Why a text is no configuration.

use grid_types::{NoMemory, Text};
use std::alloc::AllocError;

/// Why a text is no configuration. Sections and keys are looked at in the order of their bytes, and the first fault is
/// told.
#[derive(Debug, Drop)]
pub enum ConfigFault {
    /// It has over 65,536 bytes.
    TooLong,
    /// It is no text of TOML.
    NotToml,
    /// There is no such section, where the key is empty, or no such key in the section.
    UnknownKey { section: Text, key: Text },
    /// This may not stand for the key; where the key is empty, what has the section's name is no table.
    WrongValue { section: Text, key: Text },
    /// Memory was wanted and there was none.
    Memory,
}

impl From<NoMemory> for ConfigFault {
    ghost use Rattle.std.specs.Prelude.{◌≡◌};
    ghost use Rattle.grid_config.specs.declared.fault.ConfigFault.TheVariants as fault;

    ghost from_gives = { λ _ f. f ≡ fault.Memory };

    fn from(_: NoMemory) -> Self {
        ConfigFault::Memory
    }
}

impl From<AllocError> for ConfigFault {
    ghost use Rattle.std.specs.Prelude.{◌≡◌};
    ghost use Rattle.grid_config.specs.declared.fault.ConfigFault.TheVariants as fault;

    ghost from_gives = { λ _ f. f ≡ fault.Memory };

    fn from(_: AllocError) -> Self {
        ConfigFault::Memory
    }
}
