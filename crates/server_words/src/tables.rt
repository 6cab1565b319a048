//! The tables of the programs' options, and a command by its table.
ghost use Rattle.std.specs.Prelude.{◌≡◌, IfOk, false, map};
ghost use Rattle.clap.specs.Words.{app_of, rule_of, with_rule};
ghost use Rattle.server_words.specs.Tables.{rule_told};
ghost use Rattle.server_words.specs.Options.{with_rules};

use crate::options::{number_option, switch_option, text_option, texts_option, truth_option};
use clap::{Arg, Command};
use grid_types::{MOST_REQUESTS, MOST_SLOTS};
use std::alloc::{AllocError, Global};

/// What an option takes.
#[derive(Clone, Copy)]
pub(crate) enum Takes {
    /// A number between two limits.
    Number { least: u32, most: u32 },
    /// `true` or `false`.
    Truth,
    /// Any text.
    Text,
    /// Any text, again and again.
    Texts,
    /// `true` or `false`. It is true where it stands without a value.
    Switch,
}

/// An option by its name, and what it takes.
#[derive(Clone, Copy)]
pub(crate) struct OptionRow {
    name: &'static str,
    takes: Takes,
}

/// An option by its name, and what it takes, or the least number and the most.
macro_rules! option {
    ($name:literal, $takes:ident) => {
        OptionRow {
            name: $name,
            takes: Takes::$takes,
        }
    };
    ($name:literal, $least:expr, $most:expr) => {
        OptionRow {
            name: $name,
            takes: Takes::Number {
                least: $least,
                most: $most,
            },
        }
    };
}

/// The options of the hub's program.
pub(crate) const HUB_OPTIONS: &[OptionRow] = &[
    option!("host", Text),
    option!("port", 1, 65_535),
    option!("session-request-timeout", 1, 86_400),
    option!("session-timeout", 10, 86_400),
    option!("reject-unsupported-caps", Truth),
    option!("queue-limit", 1, MOST_REQUESTS),
    option!("handlers", 1, 128),
    option!("workers", 0, 64),
    option!("connections", 1, 20_000),
    option!("journal", Text),
    option!("journal-sync", Text),
];

/// The options of the node's program.
pub(crate) const NODE_OPTIONS: &[OptionRow] = &[
    option!("hub", Text),
    option!("port", 1, 65_535),
    option!("name", Text),
    option!("browser", Text),
    option!("slots", 1, MOST_SLOTS),
];

/// The options of the program that puts a driver behind a hub.
pub(crate) const ATTACH_OPTIONS: &[OptionRow] = &[
    option!("hub", Text),
    option!("driver", Text),
    option!("name", Text),
    option!("browser", Text),
    option!("browser-version", Text),
    option!("platform", Text),
    option!("slots", 1, MOST_SLOTS),
    option!("capability", Texts),
    option!("once", Switch),
];

fn option_of<'a>(alloc: Global, row: &OptionRow) -> Arg<'a>
    ensures rule { rule_of result ≡ rule_told row.now }
    ensures local { result.global ≡ false }
{
    match row.takes {
        Takes::Number { least, most } => number_option(alloc, row.name, least, most),
        Takes::Truth => truth_option(alloc, row.name),
        Takes::Text => text_option(alloc, row.name),
        Takes::Texts => texts_option(alloc, row.name),
        Takes::Switch => switch_option(alloc, row.name),
    }
}

fn with_row<'a>(
    alloc: Global,
    command: Command<'a>,
    row: &OptionRow,
) -> Result<Command<'a>, AllocError>
    ensures { IfOk result (λ c. app_of c ≡ with_rule (app_of command.entry)
        (rule_told row.now)) }
{
    command.arg(option_of(alloc, row))
}

/// The command with these options behind its own.
pub(crate) fn with_options<'a>(
    alloc: Global,
    command: Command<'a>,
    rows: &[OptionRow],
) -> Result<Command<'a>, AllocError>
    ensures { IfOk result (λ c. app_of c ≡ with_rules (app_of command.entry)
        (map rule_told rows.now)) }
{
    match rows {
        [] => Ok(command),
        [row, others @ ..] => match with_row(alloc, command, row) {
            Ok(more) => with_options(alloc, more, others),
            Err(error) => Err(error),
        },
    }
}
