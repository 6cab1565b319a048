//! Options, what is read of them, and the parse of words.
ghost use Rattle.std.specs.Prelude.{◌≡◌, ◌≢◌, ◌≤◌, ℕ, IfErr, IfOk, IfSome, IsErrOf, List, Some, [], map, option_map, false, true, pos};
ghost use Rattle.clap.specs.Words.{HasKind, IsSignedIn, all_of, app_of, fault_of, first_of, found_of, is_simple_and_free, kind_of, matches_of, rows_of, rule_of};
ghost use Rattle.server_words.specs.Options.{IsTaken, NumbersFit, number_of, number_or, rule_with, switch_of, text_of, text_or, texts_of, truth_of, truth_or};
ghost use Rattle.server_words.specs.declared.options.WordsFault.TheVariants as fault;

use clap::builder::ValueParser;
use clap::error::ErrorKind;
use clap::{Arg, ArgAction, ArgMatches, Command, Error};
use grid_types::{NoMemory, Text};
use std::alloc::{AllocError, Global};

/// Why words tell nothing.
#[derive(Clone, Copy, Debug, PartialEq, Eq)]
pub enum WordsFault {
    /// The program does not take these words.
    Refused,
    /// Out of memory.
    Memory,
}

impl From<AllocError> for WordsFault {
    ghost use Rattle.std.specs.Prelude.{◌≡◌};
    ghost use Rattle.server_words.specs.declared.options.WordsFault.TheVariants as fault;

    ghost from_gives = { λ _ e. e ≡ fault.Memory };

    fn from(_: AllocError) -> Self {
        WordsFault::Memory
    }
}

impl From<NoMemory> for WordsFault {
    ghost use Rattle.std.specs.Prelude.{◌≡◌};
    ghost use Rattle.server_words.specs.declared.options.WordsFault.TheVariants as fault;

    ghost from_gives = { λ _ e. e ≡ fault.Memory };

    fn from(_: NoMemory) -> Self {
        WordsFault::Memory
    }
}

/// An option by what it does with a value, and what takes that.
fn one_option<'a>(
    alloc: Global,
    name: &'a str,
    action: ArgAction,
    parser: ValueParser<'a>,
) -> Arg<'a>
    ensures rule { rule_of result ≡ rule_with name.entry.now action parser.entry }
    ensures local { result.global ≡ false }
{
    Arg::new(alloc, name)
        .long(name)
        .action(action)
        .value_parser(parser)
}

/// An option with a number between two limits.
pub fn number_option<'a>(alloc: Global, name: &'a str, least: u32, most: u32) -> Arg<'a>
    ensures rule { rule_of result ≡ number_of name.entry.now least most }
    ensures local { result.global ≡ false }
{
    one_option(
        alloc,
        name,
        ArgAction::Set,
        ValueParser::Signed(i64::from(least), i64::from(most)),
    )
}

/// An option with `true` or `false`.
pub fn truth_option<'a>(alloc: Global, name: &'a str) -> Arg<'a>
    ensures rule { rule_of result ≡ truth_of name.entry.now }
    ensures local { result.global ≡ false }
{
    one_option(alloc, name, ArgAction::Set, ValueParser::Bool)
}

/// An option with any text.
pub fn text_option<'a>(alloc: Global, name: &'a str) -> Arg<'a>
    ensures rule { rule_of result ≡ text_of name.entry.now }
    ensures local { result.global ≡ false }
{
    one_option(alloc, name, ArgAction::Set, ValueParser::String)
}

/// An option with any text, which may be set again and again.
pub fn texts_option<'a>(alloc: Global, name: &'a str) -> Arg<'a>
    ensures rule { rule_of result ≡ texts_of name.entry.now }
    ensures local { result.global ≡ false }
{
    one_option(alloc, name, ArgAction::Append, ValueParser::String)
}

/// An option with `true` or `false`, which is true where it stands without a value.
pub fn switch_option<'a>(alloc: Global, name: &'a str) -> Arg<'a>
    ensures rule { rule_of result ≡ switch_of name.entry.now }
    ensures local { result.global ≡ false }
{
    truth_option(alloc, name)
        .num_args(..=1)
        .default_missing_value("true")
}

/// The words, lent as strings.
pub fn texts<'a>(alloc: Global, words: &'a [Text]) -> Result<Vec<&'a str>, AllocError>
    ensures { IfOk result (λ v. map (λ s. s.now) v.items ≡ words.now) }
{
    let mut all = Vec::with_capacity(alloc, words.len())?;
    for word in words {
        all.push(word.as_str())?;
    }
    Ok(all)
}

fn fault_for(error: &Error) -> WordsFault
    ensures { result ≡ fault.Refused → kind_of error.now ≢ ErrorKind.OutOfMemory }
{
    if error.kind() == ErrorKind::OutOfMemory {
        WordsFault::Memory
    } else {
        WordsFault::Refused
    }
}

/// What the command finds in the words, or why it doesn't take them.
pub fn matched<'a>(command: Command<'a>, words: &'a [&'a str]) -> Result<ArgMatches<'a>, Error>
    requires { is_simple_and_free (app_of command) ≡ true }
    ensures taken { IfOk result (λ _. IsTaken (app_of command.entry)
        (map (λ s. s.now) words.entry.now)) }
    ensures rows { IfOk result (λ m. rows_of (found_of m)
        ≡ matches_of (app_of command.entry) (map (λ s. s.now) words.entry.now)) }
    ensures numbers { IfOk result (λ m. NumbersFit (app_of command.entry) (rows_of (found_of m))) }
    ensures kinds { IfErr result (HasKind
        (fault_of (app_of command.entry) (map (λ s. s.now) words.entry.now))) }
{
    command.try_get_matches_from(words)
}

/// What is wrong with the words, in the first line of what `clap` says; the rest of that is of its own form.
fn first_reason(text: &str) -> Option<&str> {
    text.lines().next()?.strip_prefix("error: ")
}

fn reason_of(alloc: Global, error: &Error) -> Option<String> {
    let text = format!(in alloc; "{error}").ok()?;
    String::from_str(alloc, first_reason(text.as_str())?).ok()
}

/// Why the command doesn't take the words, where it doesn't: None where there is no memory to say it.
pub fn refusal_by<'a>(
    alloc: Global,
    command: Result<Command<'a>, AllocError>,
    words: &'a [&'a str],
) -> Result<(), Option<String>>
    requires { IfOk command (λ c. is_simple_and_free (app_of c) ≡ true) }
{
    let Ok(command) = command else {
        return Err(None);
    };
    match matched(command, words) {
        Ok(_) => Ok(()),
        Err(error) => Err(reason_of(alloc, &error)),
    }
}

/// What the command finds in the words.
pub fn found<'a>(command: Command<'a>, words: &'a [&'a str]) -> Result<ArgMatches<'a>, WordsFault>
    requires { is_simple_and_free (app_of command) ≡ true }
    ensures taken { IfOk result (λ _. IsTaken (app_of command.entry)
        (map (λ s. s.now) words.entry.now)) }
    ensures rows { IfOk result (λ m. rows_of (found_of m)
        ≡ matches_of (app_of command.entry) (map (λ s. s.now) words.entry.now)) }
    ensures numbers { IfOk result (λ m. NumbersFit (app_of command.entry) (rows_of (found_of m))) }
    ensures refused { IsErrOf result fault.Refused
        → fault_of (app_of command.entry) (map (λ s. s.now) words.entry.now) ≢ [] }
{
    match matched(command, words) {
        Ok(matches) => Ok(matches),
        Err(error) => Err(fault_for(&error)),
    }
}

/// The text that the words set an option to, where they set it.
pub(crate) fn set<'a>(matches: &ArgMatches<'a>, name: &str) -> Option<&'a str>
    ensures { option_map (λ s. s.now) result ≡ first_of name.now (rows_of (found_of matches.now)) }
{
    matches.get_str(name)
}

/// All texts that the words set an option to, where they set it.
pub fn all_texts<'m, 'a>(matches: &'m ArgMatches<'a>, name: &str) -> Option<&'m [&'a str]>
    ensures { option_map (λ texts. map (λ s. s.now) texts.now) result
        ≡ all_of name.now (rows_of (found_of matches.now)) }
{
    matches.get_strs(name)
}

fn number_in(text: &str) -> u32
    requires small { IsSignedIn (pos 0) (pos 100_000) text.now }
    ensures value { result ≡ number_or 0 (Some text.now) }
    ensures within { (least most : ℕ) → IsSignedIn (pos least) (pos most) text.now
        → (least ≤ result) × (result ≤ most) }
{
    match text.parse::<i64>() {
        Ok(number) => number as u32,
        Err(_) => unreachable!(),
    }
}

/// The number that an option was set to, or the default.
pub fn number(matches: &ArgMatches<'_>, name: &str, default: u32) -> u32
    requires small { IfSome (first_of name.now (rows_of (found_of matches.now)))
        (IsSignedIn (pos 0) (pos 100_000)) }
    ensures value { result ≡ number_or default
        (first_of name.now (rows_of (found_of matches.now))) }
    ensures within { (least most : ℕ)
        → IfSome (first_of name.now (rows_of (found_of matches.now))) (IsSignedIn (pos least) (pos most))
        → least ≤ default → default ≤ most → (least ≤ result) × (result ≤ most) }
{
    match set(matches, name) {
        None => default,
        Some(text) => number_in(text),
    }
}

/// What an option was set to, or the default.
pub fn truth(matches: &ArgMatches<'_>, name: &str, default: bool) -> bool
    ensures { result ≡ truth_or default (first_of name.now (rows_of (found_of matches.now))) }
{
    match set(matches, name) {
        None => default,
        Some(text) => text == "true",
    }
}

/// The text that an option was set to, or the default.
pub fn text<'a>(matches: &ArgMatches<'a>, name: &str, default: &'a str) -> &'a str
    ensures { result.now ≡ text_or default.entry.now
        (first_of name.now (rows_of (found_of matches.now))) }
{
    match set(matches, name) {
        None => default,
        Some(text) => text,
    }
}
