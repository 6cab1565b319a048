//! Arguments that ask what a program is, and nothing else.

use grid_types::Text;

/// The version of all programs.
pub const VERSION: &str = "0.1.0";

/// What one argument alone asks for.
#[derive(Clone, Copy, Debug, PartialEq, Eq)]
pub enum Asked {
    /// How the program is called.
    Help,
    /// Which version it is.
    Version,
}

impl Asked {
    /// What the arguments ask for. None where they are not just `-h`, `--help` or `--version`.
    pub fn of(words: &[Text]) -> Option<Asked> {
        match words {
            [word] => match word.as_str() {
                "-h" | "--help" => Some(Asked::Help),
                "--version" => Some(Asked::Version),
                _ => None,
            },
            _ => None,
        }
    }

    /// Writes what is asked for to standard output. Nothing is told where it can't be written.
    pub fn tell<R: Print>(self, rt: &R, program: &str, usage: &str) {
        let _ = match self {
            Asked::Help => print!(rt; "{usage}"),
            Asked::Version => println!(rt; "{program} {VERSION}"),
        };
    }
}
