//! Which capabilities match, by outside cases.
ghost use Rattle.std.specs.Prelude.{◌≡◌, ◌<◌};

use crate::rules::members::Kind::{Off, On, Raw, Text};
use crate::rules::members::{Member, put};
use grid_types::{Caps, NoMemory};
use slot_match::*;
use std::alloc::Global;
use std::marker::Brand;
use std::sync::ledger::{Blank, Ledger};

fn matched<L: Ledger>(wanted: &Caps, offered: &Caps, blank: Blank) -> bool
    requires name { blank.name ≡ L.name }
    requires parts { blank.parts ≡ L.parts }
    requires some { 0 < L.parts }
{
    let mut steps = Steps::<L>::new(blank);
    matches(wanted, offered, &mut steps)
}

fn is_match(wanted: &Caps, offered: &Caps) -> bool {
    matched::<Brand>(wanted, offered, Blank::new(1))
}

/// What is wanted, what is offered, whether that matches, and whether it meets what is wanted.
type Case = (Member, Member, bool, bool);

fn puts(
    alloc: Global,
    wanted: &mut Caps,
    offered: &mut Caps,
    case: &Case,
) -> Result<bool, NoMemory> {
    let (member, other, matching, meeting) = case;
    put(alloc, wanted, member)?;
    put(alloc, offered, other)?;
    Ok(is_match(wanted, offered) == *matching && meets(wanted, offered) == *meeting)
}

fn holds(alloc: Global, case: &Case) -> Result<bool, NoMemory> {
    let mut wanted = Caps::new(alloc);
    let mut offered = Caps::new(alloc);
    puts(alloc, &mut wanted, &mut offered, case)
}

fn all_hold(alloc: Global, cases: &[Case]) -> bool {
    for case in cases {
        if holds(alloc, case) != Ok(true) {
            return false;
        }
    }
    true
}

const NONE: Member = ("", Text, "");

/// Two values of one name.
macro_rules! kinds {
    ($name:expr, $kind:expr, $wanted:expr, $other:expr, $offered:expr, $matching:expr, $meeting:expr) => {
        (
            ($name, $kind, $wanted),
            ($name, $other, $offered),
            $matching,
            $meeting,
        )
    };
}

/// A value that is wanted where nothing is offered.
macro_rules! alone {
    ($name:expr, $kind:expr, $wanted:expr, $matching:expr, $meeting:expr) => {
        (($name, $kind, $wanted), NONE, $matching, $meeting)
    };
}

/// Two browsers, with the one answer to both.
macro_rules! browser {
    ($wanted:expr, $offered:expr, $answer:expr) => {
        kinds!("browserName", Text, $wanted, Text, $offered, $answer, $answer)
    };
}

macro_rules! version {
    ($wanted:expr, $offered:expr, $matching:expr, $meeting:expr) => {
        kinds!("browserVersion", Text, $wanted, Text, $offered, $matching, $meeting)
    };
}

macro_rules! platform {
    ($wanted:expr, $offered:expr, $matching:expr, $meeting:expr) => {
        kinds!("platformName", Text, $wanted, Text, $offered, $matching, $meeting)
    };
}

const BROWSERS: &[Case] = &[
    browser!("chrome", "chrome", true),
    browser!("Chrome", "chrome", true),
    browser!("chrome", "CHROME", true),
    browser!("chrome", "chromium", false),
    browser!("chrome", "chrom", false),
    browser!("chrome", "chrome ", false),
    browser!("chrome", "", false),
    browser!("", "", true),
    browser!("", "chrome", false),
    browser!("firefox", "chrome", false),
    browser!("msedge", "MicrosoftEdge", true),
    browser!("MicrosoftEdge", "msedge", true),
    browser!("MSEdge", "microsoftedge", true),
    browser!("msedge", "edge", false),
    browser!("msedge", "chrome", false),
    browser!("chrome", "chrome-headless-shell", true),
    browser!("chrome-headless-shell", "Chrome", true),
    browser!("Chrome-Headless-Shell", "chrome-headless-shell", true),
    browser!("chrome-headless-shell", "msedge", false),
    browser!("microsoftedge", "chrome-headless-shell", false),
    browser!("chrome-headless", "chrome", false),
    browser!("safari", "Safari", true),
    browser!("É", "é", false),
];

const VERSIONS: &[Case] = &[
    version!("12", "126.0", false, false),
    version!("126", "126.0", true, true),
    version!("126.0", "126.0", true, true),
    version!("126.", "126.0", false, false),
    version!("stable", "126.0", true, true),
    version!("", "126.0", true, true),
    version!("126", "1260", false, false),
    version!("126", "1260.0", false, false),
    version!("126", "126", true, true),
    version!("126.0", "126", false, false),
    version!("126", "126.", true, true),
    version!("126.0.6478", "126.0.6478.126", true, true),
    version!("126.0.647", "126.0.6478.126", false, false),
    version!("beta", "126.0", false, true),
    version!("beta", "beta", true, true),
    version!("beta", "beta.1", true, true),
    version!("Stable", "126.0", false, true),
    version!("latest", "126.0", false, true),
    version!("-1", "126.0", false, true),
    version!("9z", "126.0", false, false),
    version!("126", "", false, false),
];

const PLATFORMS: &[Case] = &[
    platform!("linux", "linux", true, true),
    platform!("Linux", "LINUX", true, true),
    platform!("any", "linux", true, true),
    platform!("ANY", "windows 11", true, true),
    platform!("anything", "linux", false, false),
    platform!("linux", "any", false, false),
    platform!("windows", "Windows 11", true, true),
    platform!("win", "windows", true, true),
    platform!("WIN", "win10", true, true),
    platform!("windows 11", "windows 10", false, true),
    platform!("windows 11", "windows", false, true),
    platform!("win10", "windows", false, true),
    platform!("mac", "macOS 14", true, true),
    platform!("macos", "darwin", true, true),
    platform!("mac", "Darwin", true, true),
    platform!("darwin", "mac", false, true),
    platform!("macos 14", "mac", false, true),
    platform!("mac", "linux", false, false),
    platform!("windows", "darwin", false, false),
    platform!("linux", "ubuntu", true, true),
    platform!("linux", "Debian", true, true),
    platform!("linux", "linux 6.1", true, true),
    platform!("ubuntu", "debian", false, true),
    platform!("ubuntu", "linux", false, true),
    platform!("linux", "fedora", false, false),
    platform!("linux", "ubuntu 24", false, false),
    platform!("fedora", "Fedora", true, true),
    platform!("", "", true, true),
    platform!("", "linux", false, false),
    platform!("linux", "", false, false),
];

const EXTENSIONS_AND_KINDS: &[Case] = &[
    kinds!("x:team", Text, "a", Text, "a", true, true),
    kinds!("x:team", Text, "a", Text, "A", false, true),
    (("x:team", Text, "a"), ("X:team", Text, "a"), false, true),
    alone!("x:team", Text, "a", false, true),
    (NONE, ("x:team", Text, "a"), true, true),
    kinds!("x:on", On, "", On, "", true, true),
    kinds!("x:on", On, "", Off, "", false, true),
    kinds!("x:on", Off, "", Off, "", true, true),
    kinds!("x:on", Off, "", On, "", false, true),
    kinds!("x:on", On, "", Text, "true", false, true),
    kinds!("x:on", On, "", Raw, "true", false, true),
    kinds!("x:raw", Raw, "[1]", Raw, "[1]", true, true),
    kinds!("x:raw", Raw, "[1]", Raw, "[2]", false, true),
    kinds!("x:raw", Raw, "1", Text, "1", false, true),
    alone!("goog:chromeOptions", Raw, "{}", true, true),
    alone!("moz:firefoxOptions", Raw, "{}", true, true),
    alone!("ms:edgeOptions", Raw, "{}", true, true),
    alone!("safari:diagnose", On, "", true, true),
    alone!("webkitgtk:browserOptions", Raw, "{}", true, true),
    kinds!("se:name", Text, "a", Text, "b", true, true),
    alone!("wdio:x", Text, "a", true, true),
    alone!("grid:x", Text, "a", true, true),
    alone!("Goog:x", Text, "a", false, true),
    alone!("google:x", Text, "a", false, true),
    kinds!("acceptInsecureCerts", On, "", Off, "", true, true),
    alone!("timeouts", Raw, "{}", true, true),
    kinds!("browserName", Text, "chrome", Raw, "chrome", false, false),
    kinds!("browserName", Raw, "1", Text, "chrome", true, true),
    kinds!("browserVersion", Text, "126", Raw, "126", false, false),
    kinds!("browserVersion", Text, "stable", Raw, "126", true, true),
    kinds!("platformName", Text, "linux", On, "", false, false),
    kinds!("platformName", On, "", Text, "linux", true, true),
    alone!("platformName", Text, "any", true, true),
    alone!("browserVersion", Text, "", true, true),
    alone!("browserVersion", Text, "dev", false, true),
    alone!("browserName", Text, "chrome", false, false),
];

#[test]
fn capabilities_match_and_meet(rt: HostRuntime) {
    assert!(rt; all_hold(rt.alloc(), BROWSERS));
    assert!(rt; all_hold(rt.alloc(), VERSIONS));
    assert!(rt; all_hold(rt.alloc(), PLATFORMS));
    assert!(rt; all_hold(rt.alloc(), EXTENSIONS_AND_KINDS));
}
