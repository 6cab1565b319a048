//! The tables of keys: what may stand for each, and the option of a program that it sets.
ghost use Rattle.std.specs.Prelude.{◌≡◌, map};
ghost use Rattle.grid_config.specs.Rows.{attach_rows, has_section, kind_at, row_told, rows_of};

use std::fmt;

/// Which program is configured.
#[derive(Clone, Copy, Debug, PartialEq, Eq)]
pub enum Mode {
    /// The hub.
    Hub,
    /// A node in memory.
    Node,
}

/// The form of a text that may stand for a key.
#[derive(Clone, Copy)]
pub enum Form {
    /// 1 to 64 bytes from `!` to `~` that begin with no `-`.
    Name,
    /// A name of letters, digits, `-`, `_` and `.` alone, as a hub takes it for a node.
    Label,
    /// The address of a hub or a driver, which begins with no `-`.
    Address,
    /// A capability `NAME=VALUE`, which begins with no `-`.
    Capability,
    /// The path of a file: 1 to 4,095 bytes, none of which is a control character of ASCII, that begin with no `-`.
    Path,
    /// `each` or `second`.
    Sync,
}

/// What may stand for a key.
#[derive(Clone, Copy)]
pub enum Kind {
    /// A whole number between two limits.
    Number { least: u32, most: u32 },
    /// `true` or `false`.
    Truth,
    /// A text of a form.
    Text(Form),
}

impl fmt::Display for Form {
    fn fmt<W: fmt::Write>(&self, f: &mut fmt::Formatter<W>) -> fmt::Result {
        f.write_str(match self {
            Form::Name => "a text of 1 to 64 bytes from ! to ~, no - in front",
            Form::Label => "a text of 1 to 64 letters, digits, -, _ and ., no - in front",
            Form::Address => "an address HOST:PORT as a text",
            Form::Capability => "a text NAME=VALUE, no - in front",
            Form::Path => "the path of a file, no - in front",
            Form::Sync => "\"each\" or \"second\"",
        })
    }
}

impl fmt::Display for Kind {
    fn fmt<W: fmt::Write>(&self, f: &mut fmt::Formatter<W>) -> fmt::Result {
        match self {
            Kind::Number { least, most } => write!(f, "a whole number from {least} to {most}"),
            Kind::Truth => f.write_str("true or false"),
            Kind::Text(form) => write!(f, "{form}"),
        }
    }
}

/// A key of a section, the option that it sets, and what may stand for it.
#[derive(Clone, Copy)]
pub struct Row {
    pub section: &'static str,
    pub key: &'static str,
    pub option: &'static str,
    pub kind: Kind,
}

/// A row by its section, its key, and what may stand for it. The option is the key behind two dashes.
macro_rules! row {
    ($section:literal, $key:literal, $least:literal..=$most:literal) => {
        row!(
            $section,
            $key,
            Kind::Number {
                least: $least,
                most: $most
            }
        )
    };
    ($section:literal, $key:literal, $kind:expr) => {
        Row {
            section: $section,
            key: $key,
            option: concat!("--", $key),
            kind: $kind,
        }
    };
}

const HUB_ROWS: &[Row] = &[
    row!("server", "port", 1..=65_535),
    row!("sessionqueue", "session-request-timeout", 1..=86_400),
    row!("sessionqueue", "queue-limit", 1..=10_000),
    row!("distributor", "reject-unsupported-caps", Kind::Truth),
    row!("distributor", "workers", 0..=64),
    row!("server", "handlers", 1..=128),
    row!("node", "session-timeout", 10..=86_400),
    row!("server", "host", Kind::Text(Form::Name)),
    row!("server", "connections", 1..=20_000),
    row!("distributor", "journal", Kind::Text(Form::Path)),
    row!("distributor", "journal-sync", Kind::Text(Form::Sync)),
];

const NODE_ROWS: &[Row] = &[
    row!("node", "hub", Kind::Text(Form::Name)),
    row!("node", "name", Kind::Text(Form::Name)),
    row!("node", "browser", Kind::Text(Form::Name)),
    row!("node", "slots", 1..=64),
    row!("server", "port", 1..=65_535),
];

const ATTACH_ROWS: &[Row] = &[
    row!("node", "hub", Kind::Text(Form::Address)),
    row!("node", "driver", Kind::Text(Form::Address)),
    row!("node", "name", Kind::Text(Form::Label)),
    row!("node", "browser", Kind::Text(Form::Name)),
    row!("node", "browser-version", Kind::Text(Form::Name)),
    row!("node", "platform", Kind::Text(Form::Name)),
    row!("node", "slots", 1..=64),
    row!("node", "capability", Kind::Text(Form::Capability)),
    row!("node", "once", Kind::Truth),
];

/// The table of the program.
pub fn rows_of(mode: Mode) -> &'static [Row]
    ensures { map row_told result.now ≡ rows_of mode }
{
    match mode {
        Mode::Hub => HUB_ROWS,
        Mode::Node => NODE_ROWS,
    }
}

/// The table of the program that puts a driver behind a hub.
pub fn attach_rows() -> &'static [Row]
    ensures { map row_told result.now ≡ attach_rows }
{
    ATTACH_ROWS
}

/// What may stand for the key; None where no row is of it.
pub(crate) fn kind_at(rows: &[Row], section: &str, key: &str) -> Option<Kind>
    ensures { result ≡ kind_at (map row_told rows.now) section.now key.now }
{
    match rows {
        [] => None,
        [row, others @ ..] => {
            if row.section == section && row.key == key {
                Some(row.kind)
            } else {
                kind_at(others, section, key)
            }
        }
    }
}

/// Whether a row is of the section.
pub(crate) fn has_section(rows: &[Row], section: &str) -> bool
    ensures { result ≡ has_section (map row_told rows.now) section.now }
{
    match rows {
        [] => false,
        [row, others @ ..] => row.section == section || has_section(others, section),
    }
}
