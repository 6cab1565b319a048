//! The statuses that the programs have in common.
ghost use Rattle.std.specs.Prelude.{◌≡◌};
ghost use Rattle.grid_config.specs.Ran.{fault_status};

use crate::fault::ConfigFault;

/// Other words than the name of a program.
pub(crate) const OTHER_WORDS: u8 = 8;

/// The text is no configuration.
const FAULTY: u8 = 9;

/// A read failed.
pub(crate) const READ_FAILED: u8 = 10;

/// Out of memory.
pub(crate) const NO_MEMORY: u8 = 5;

/// The status of a text that says no words.
pub(crate) fn fault_status(fault: &ConfigFault) -> u8
    ensures { result ≡ fault_status fault.now }
{
    match fault {
        ConfigFault::Memory => NO_MEMORY,
        ConfigFault::TooLong => FAULTY,
        ConfigFault::NotToml => FAULTY,
        ConfigFault::UnknownKey { .. } => FAULTY,
        ConfigFault::WrongValue { .. } => FAULTY,
    }
}
