//! The address that the hub's program listens at.
ghost use Rattle.std.specs.Prelude.{◌≡◌, ◌≢◌, ◌++◌, ℕ, IfOk, IsErrOf, List, MatchOption, codes};
ghost use Rattle.std.specs.declared.net.ip_addr.IpAddr.{IpAddr};
ghost use Rattle.clap.specs.Words.{found_of, rows_of};
ghost use Rattle.server_words.specs.Hosts.{IsBracketed, IsHostText, TellsHost, host_said, host_told};
ghost use Rattle.server_words.specs.HubOptions.{hub_command};
ghost use Rattle.server_words.specs.Options.{IsTaken};
ghost use Rattle.server_words.specs.declared.options.WordsFault.TheVariants as fault;

use crate::hub::hub_matches;
use crate::options::{WordsFault, text, texts};
use clap::ArgMatches;
use grid_types::Text;
use std::alloc::Global;
use std::net::{IpAddr, Ipv6Addr};

/// What stands between brackets, where the text is in brackets.
fn in_brackets(text: &[u8]) -> Option<&[u8]>
    ensures { MatchOption result ((x : List ℕ) → text.now ≢ codes "[" ++ (x ++ codes "]"))
        (λ x. text.now ≡ codes "[" ++ (x.now ++ codes "]")) }
{
    match text.strip_prefix(b"[") {
        Some(rest) => rest.strip_suffix(b"]"),
        None => None,
    }
}

/// The IPv6 address (RFC 4291 §2.2) in brackets (RFC 3986 §3.2.2) that the text is.
fn bracketed(text: &[u8]) -> Option<Ipv6Addr>
    ensures { MatchOption result ((ip : Ipv6Addr) → ¬ (IsBracketed text.now ip)) (IsBracketed text.now) }
{
    match in_brackets(text) {
        Some(inner) => match Ipv6Addr::parse_ascii(inner) {
            Ok(ip) => Some(ip),
            Err(_) => None,
        },
        None => None,
    }
}

/// The address that the text writes.
fn host_in(text: &[u8]) -> Option<IpAddr>
    ensures { MatchOption result ((ip : IpAddr) → ¬ (IsHostText text.now ip)) (IsHostText text.now) }
{
    match IpAddr::parse_ascii(text) {
        Ok(ip) => Some(ip),
        Err(_) => match bracketed(text) {
            Some(ip) => Some(IpAddr::V6(ip)),
            None => None,
        },
    }
}

/// The address that what the words set the options to writes.
fn host_told(matches: &ArgMatches<'_>) -> Result<IpAddr, WordsFault>
    ensures said { IfOk result (IsHostText (host_told (rows_of (found_of matches.now)))) }
    ensures refused { IsErrOf result fault.Refused
        → (ip : IpAddr) → ¬ (IsHostText (host_told (rows_of (found_of matches.now))) ip) }
{
    match host_in(text(matches, "host", "0.0.0.0").as_bytes()) {
        Some(ip) => Ok(ip),
        None => Err(WordsFault::Refused),
    }
}

/// Where the words of the hub's program have it listen: at all IPv4 addresses of the machine, unless they name another.
pub fn hub_host(alloc: Global, words: &[Text]) -> Result<IpAddr, WordsFault>
    ensures taken { IfOk result (λ _. IsTaken hub_command words.now) }
    ensures said { IfOk result (IsHostText (host_said words.now)) }
    ensures refused { IsErrOf result fault.Refused → ¬ (TellsHost words.now) }
{
    let texts = texts(alloc, words)?;
    match hub_matches(alloc, texts.as_slice()) {
        Ok(matches) => host_told(&matches),
        Err(fault) => Err(fault),
    }
}
