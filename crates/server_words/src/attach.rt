//! The words of the program that puts a driver behind a hub.
ghost use Rattle.std.specs.Prelude.{◌≡◌, ◌≢◌, ◌⊎◌, IfErr, IfOk, Some, is_some, map, true};
ghost use Rattle.clap.specs.Words.{app_of, found_of, is_simple_and_free, kind_of, matches_of, rows_of};
ghost use Rattle.server_words.specs.Addresses.{bare_address, is_reachable};
ghost use Rattle.server_words.specs.AttachOptions.{FitsAttach, HasCause, HasValueCause, HasWordCause, TextsFit, are_short, attach_browser, attach_command, attach_driver, attach_hub, attach_name, attach_own, attach_platform, attach_said, attach_told, attach_version, is_label, is_short};
ghost use Rattle.server_words.specs.Options.{IsTaken, NumbersFit};
ghost use Rattle.server_words.specs.OwnCapabilities.{own_caps};
ghost use Rattle.server_words.specs.declared.attach.AttachFault.TheVariants as fault;

use crate::address::address_in;
use crate::options::{all_texts, matched, number, text, texts, truth};
use crate::own_capabilities::put_own;
use crate::tables::{ATTACH_OPTIONS, with_options};
use clap::error::ErrorKind;
use clap::{ArgMatches, Command, Error};
use grid_types::{Caps, MOST_NAME_BYTES, NoMemory, NodeAddress, Text, are_node_name_bytes};
use std::alloc::{AllocError, Global};
use std::fmt;

/// How `grid_attach` is called.
pub const ATTACH_USAGE: &str = "\
usage: grid_attach [OPTION VALUE]...
  --hub HOST:PORT             address of the hub (127.0.0.1:4444)
  --driver HOST:PORT          address of the driver (127.0.0.1:9515)
  --name NAME                 name of the node at the hub (driver)
  --browser NAME              browser of its slots (chrome)
  --browser-version VERSION   version of that browser (as the driver tells)
  --platform NAME             platform of its slots (linux)
  --slots COUNT               sessions at once, 1 to 64 (1)
  --capability NAME=VALUE     one more that its slots offer; again and again
  --once [true|false]         end where the hub refuses a beat (false)
HOST:PORT may have http:// in front and / behind. VALUE is JSON, or else a text.
";

/// What the words say.
#[derive(Drop)]
pub struct AttachWords {
    /// Where the hub listens.
    pub hub: NodeAddress,
    /// Where the driver listens.
    pub driver: NodeAddress,
    /// The node's name at the hub.
    pub name: Text,
    /// The name of the browser of all its slots.
    pub browser: Text,
    /// The browser's version; that of the driver's build is told where it is empty.
    pub version: Text,
    /// The platform that the browser runs on; none is told where it is empty.
    pub platform: Text,
    /// How many slots it has.
    pub slots: u16,
    /// What its slots offer beside that.
    pub own: Caps,
    /// Whether it ends where the hub refuses a beat.
    pub once: bool,
}

/// Why words tell nothing.
#[derive(Drop)]
pub enum AttachFault {
    /// The command does not take the words.
    Words(Error),
    /// The hub's address is none.
    Hub,
    /// The driver's address is none.
    Driver,
    /// The name has another form than a hub takes.
    Name,
    /// The browser, its version or its platform is too long.
    TooLong,
    /// A capability of its own has no name, or no value.
    Capability,
    /// Out of memory.
    Memory,
}

impl From<AllocError> for AttachFault {
    ghost use Rattle.std.specs.Prelude.{◌≡◌};
    ghost use Rattle.server_words.specs.declared.attach.AttachFault.TheVariants as fault;

    ghost from_gives = { λ _ e. e ≡ fault.Memory };

    fn from(_: AllocError) -> Self {
        AttachFault::Memory
    }
}

impl From<NoMemory> for AttachFault {
    ghost use Rattle.std.specs.Prelude.{◌≡◌};
    ghost use Rattle.server_words.specs.declared.attach.AttachFault.TheVariants as fault;

    ghost from_gives = { λ _ e. e ≡ fault.Memory };

    fn from(_: NoMemory) -> Self {
        AttachFault::Memory
    }
}

impl fmt::Display for AttachFault {
    fn fmt<W: fmt::Write>(&self, f: &mut fmt::Formatter<W>) -> fmt::Result {
        match self {
            AttachFault::Words(error) => write!(f, "{error}"),
            AttachFault::Hub => f.write_str("error: the value of --hub is no address HOST:PORT"),
            AttachFault::Driver => f.write_str(
                "error: the value of --driver is no address HOST:PORT",
            ),
            AttachFault::Name => f.write_str(
                "error: the value of --name is not of 1 to 64 letters, digits, '-', '_' and '.'",
            ),
            AttachFault::TooLong => f.write_str(
                "error: a value of --browser, --browser-version or --platform has over 64 bytes",
            ),
            AttachFault::Capability => f.write_str(
                "error: a value of --capability is not NAME=VALUE",
            ),
            AttachFault::Memory => f.write_str("error: out of memory"),
        }
    }
}

fn command<'a>(alloc: Global) -> Result<Command<'a>, AllocError>
    ensures app { IfOk result (λ c. app_of c ≡ attach_command) }
    ensures simple { IfOk result (λ c. is_simple_and_free (app_of c) ≡ true) }
{
    let bare = Command::new(alloc, "grid_attach").no_binary_name(true);
    with_options(alloc, bare, ATTACH_OPTIONS)
}

/// Whether the text is no longer than a node's name may be.
fn is_short(text: &str) -> bool
    ensures { result ≡ is_short text.now }
{
    text.len() <= MOST_NAME_BYTES
}

/// Whether a hub takes the text as a node's name.
fn is_label(text: &str) -> bool
    ensures { result ≡ is_label text.now }
{
    !text.is_empty() && is_short(text) && are_node_name_bytes(text.as_bytes())
}

fn are_short(browser: &str, version: &str, platform: &str) -> bool
    ensures { result ≡ are_short browser.now version.now platform.now }
{
    is_short(browser) && is_short(version) && is_short(platform)
}

/// Whether what the words set the texts to fits.
fn texts_fit(matches: &ArgMatches<'_>) -> Result<(), AttachFault>
    ensures fits { IfOk result (λ _. TextsFit (rows_of (found_of matches.now))) }
    ensures why { IfErr result (λ f. HasValueCause f (rows_of (found_of matches.now))) }
{
    let browser = text(matches, "browser", "chrome");
    let version = text(matches, "browser-version", "");
    let platform = text(matches, "platform", "linux");
    if !is_label(text(matches, "name", "driver")) {
        return Err(AttachFault::Name);
    }
    if are_short(browser, version, platform) {
        Ok(())
    } else {
        Err(AttachFault::TooLong)
    }
}

/// The capabilities that the words name themselves.
fn own(alloc: Global, matches: &ArgMatches<'_>) -> Result<Caps, AttachFault>
    ensures ok { IfOk result (λ caps. own_caps (attach_own (rows_of (found_of matches.now)))
        ≡ Some caps) }
    ensures why { IfErr result (λ f. HasValueCause f (rows_of (found_of matches.now))) }
{
    let mut caps = Caps::new(alloc);
    let Some(texts) = all_texts(matches, "capability") else {
        return Ok(caps);
    };
    if put_own(alloc, texts, &mut caps)? {
        Ok(caps)
    } else {
        Err(AttachFault::Capability)
    }
}

/// What the node and its browser are called.
#[derive(Drop)]
struct LabelWords {
    name: Text,
    browser: Text,
    version: Text,
    platform: Text,
}

fn labels(alloc: Global, matches: &ArgMatches<'_>) -> Result<LabelWords, NoMemory>
    ensures name { IfOk result (λ l. l.name ≡ attach_name (rows_of (found_of matches.now))) }
    ensures browser { IfOk result (λ l. l.browser
        ≡ attach_browser (rows_of (found_of matches.now))) }
    ensures version { IfOk result (λ l. l.version
        ≡ attach_version (rows_of (found_of matches.now))) }
    ensures platform { IfOk result (λ l. l.platform
        ≡ attach_platform (rows_of (found_of matches.now))) }
{
    Ok(LabelWords {
        name: Text::of(alloc, text(matches, "name", "driver"))?,
        browser: Text::of(alloc, text(matches, "browser", "chrome"))?,
        version: Text::of(alloc, text(matches, "browser-version", ""))?,
        platform: Text::of(alloc, text(matches, "platform", "linux"))?,
    })
}

fn told(alloc: Global, matches: &ArgMatches<'_>) -> Result<AttachWords, AttachFault>
    requires { NumbersFit attach_command (rows_of (found_of matches.now)) }
    ensures told { IfOk result (λ w. w ≡ attach_told (rows_of (found_of matches.now))) }
    ensures hub { IfOk result (λ _. is_reachable
        (bare_address (attach_hub (rows_of (found_of matches.now)))) ≡ true) }
    ensures driver { IfOk result (λ _. is_reachable
        (bare_address (attach_driver (rows_of (found_of matches.now)))) ≡ true) }
    ensures own { IfOk result (λ _. is_some (own_caps (attach_own (rows_of (found_of matches.now))))
        ≡ true) }
    ensures texts { IfOk result (λ _. TextsFit (rows_of (found_of matches.now))) }
    ensures why { IfErr result (λ f. HasValueCause f (rows_of (found_of matches.now))) }
{
    let Some(hub) = address_in(text(matches, "hub", "127.0.0.1:4444")) else {
        return Err(AttachFault::Hub);
    };
    let Some(driver) = address_in(text(matches, "driver", "127.0.0.1:9515")) else {
        return Err(AttachFault::Driver);
    };
    texts_fit(matches)?;
    let own = own(alloc, matches)?;
    let Ok(called) = labels(alloc, matches) else {
        return Err(AttachFault::Memory);
    };
    Ok(AttachWords {
        hub,
        driver,
        name: called.name,
        browser: called.browser,
        version: called.version,
        platform: called.platform,
        slots: number(matches, "slots", 1) as u16,
        own,
        once: truth(matches, "once", false),
    })
}

fn fault_for(error: Error) -> AttachFault
    ensures { (result ≡ fault.Memory) ⊎ (result ≡ fault.Words error)
        × (kind_of error ≢ ErrorKind.OutOfMemory) }
{
    if error.kind() == ErrorKind::OutOfMemory {
        AttachFault::Memory
    } else {
        AttachFault::Words(error)
    }
}

/// What this command finds in the words.
fn found_by<'a>(command: Command<'a>, words: &'a [&'a str]) -> Result<ArgMatches<'a>, AttachFault>
    requires { is_simple_and_free (app_of command) ≡ true }
    ensures taken { IfOk result (λ _. IsTaken (app_of command.entry)
        (map (λ s. s.now) words.entry.now)) }
    ensures rows { IfOk result (λ m. rows_of (found_of m)
        ≡ matches_of (app_of command.entry) (map (λ s. s.now) words.entry.now)) }
    ensures numbers { IfOk result (λ m. NumbersFit (app_of command.entry) (rows_of (found_of m))) }
    ensures why { IfErr result (λ f. HasWordCause f (app_of command.entry)
        (map (λ s. s.now) words.entry.now)) }
{
    match matched(command, words) {
        Ok(matches) => Ok(matches),
        Err(error) => Err(fault_for(error)),
    }
}

/// What the command finds in the words.
fn found<'a>(alloc: Global, words: &'a [&'a str]) -> Result<ArgMatches<'a>, AttachFault>
    ensures taken { IfOk result (λ _. IsTaken attach_command (map (λ s. s.now) words.entry.now)) }
    ensures rows { IfOk result (λ m. rows_of (found_of m)
        ≡ matches_of attach_command (map (λ s. s.now) words.entry.now)) }
    ensures numbers { IfOk result (λ m. NumbersFit attach_command (rows_of (found_of m))) }
    ensures why { IfErr result (λ f. HasWordCause f attach_command
        (map (λ s. s.now) words.entry.now)) }
{
    match command(alloc) {
        Ok(command) => found_by(command, words),
        Err(_) => Err(AttachFault::Memory),
    }
}

/// Reads the words of `grid_attach`, of which the program's name is none. What no option sets is as
/// by default.
pub fn attach_words(alloc: Global, words: &[Text]) -> Result<AttachWords, AttachFault>
    ensures fits { IfOk result (λ _. FitsAttach words.now) }
    ensures said { IfOk result (λ w. w ≡ attach_said words.now) }
    ensures why { IfErr result (λ f. HasCause f words.now) }
    ensures refused { IfErr result (λ f. f ≢ fault.Memory → ¬ (FitsAttach words.now)) }
{
    let texts = texts(alloc, words)?;
    let matches = found(alloc, texts.as_slice())?;
    told(alloc, &matches)
}
