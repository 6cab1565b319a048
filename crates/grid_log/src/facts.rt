//! What capabilities, groups, causes and addresses tell.
ghost use Rattle.std.specs.Prelude.{◌≡◌, ℕ, find, bytes_eq, option_copied, unwrap_or, []};
ghost use Rattle.std.specs.List.{slice_get};
ghost use Rattle.grid_types.specs.Capabilities.{text_at};
ghost use Rattle.grid_types.specs.History.{moment_of};
ghost use Rattle.grid_log.specs.Events.{browser_in, cause_word, failed_words, node_words, since, version_in, why_words};
ghost use Rattle.grid_log.specs.Past.{slots_in};

use grid_types::{Cap, CapValue, Caps, Change, Choices, EndCause, FailWhy, NodeAddress, SlotGroup};
use std::str::from_utf8;

/// The member of this name.
fn member_named<'a>(caps: &'a [Cap], name: &str) -> Option<&'a Cap>
    ensures { option_copied result ≡ find (λ m. bytes_eq m.name name.now) caps.now }
{
    caps.iter().find(|m| m.name.as_str() == name)
}

/// The text of the member of this name; a member of another kind counts as absent.
fn text_named<'a>(caps: &'a Caps, name: &str) -> Option<&'a str>
    ensures { option_copied result ≡ text_at name.now caps.now }
{
    match member_named(caps.items(), name) {
        Some(member) => match &member.value {
            CapValue::Text(text) => Some(text.as_str()),
            CapValue::Flag(_) | CapValue::Raw(_) => None,
        },
        None => None,
    }
}

/// The browser's name that the capabilities tell.
pub(crate) fn browser_in(caps: &Caps) -> Option<&str>
    ensures { option_copied result ≡ browser_in caps.now }
{
    text_named(caps, "browserName")
}

/// The browser's version that they tell.
pub(crate) fn version_in(caps: &Caps) -> Option<&str>
    ensures { option_copied result ≡ version_in caps.now }
{
    text_named(caps, "browserVersion")
}

/// The browser's name in the first choice.
pub(crate) fn first_browser(choices: &Choices) -> Option<&str>
    ensures { option_copied result ≡ browser_in (unwrap_or (slice_get choices.now 0) []) }
{
    browser_in(&choices.items()[0])
}

/// How many slots the groups have.
#[tactic(auto, using(crate::proofs::SumLemmas::total_step))]
pub(crate) fn slots_in(groups: &[SlotGroup]) -> u64
    ensures { result ≡ slots_in groups.now }
{
    let mut count: u64 = 0;
    for group in groups {
        count = count.saturating_add(u64::from(group.count));
    }
    count
}

/// An address is of visible ASCII characters.
pub(crate) fn address_text(address: &NodeAddress) -> &str
    ensures { result.now ≡ address.now }
{
    match from_utf8(address.as_bytes()) {
        Ok(text) => text,
        Err(_) => unreachable!(),
    }
}

/// The moment of a change, in milliseconds since the hub's clock began; that a slot is freed has none.
pub fn moment_of(change: &Change) -> Option<u64>
    ensures { result ≡ moment_of change.now }
{
    match change {
        Change::Registered { at, .. }
        | Change::Beaten { at, .. }
        | Change::Draining { at, .. }
        | Change::Removed { at, .. }
        | Change::Lapsed { at, .. }
        | Change::Queued { at, .. }
        | Change::Reserved { at, .. }
        | Change::Bound { at, .. }
        | Change::Failed { at, .. }
        | Change::TimedOut { at, .. }
        | Change::Cleared { at, .. }
        | Change::Taken { at, .. }
        | Change::Touched { at, .. }
        | Change::Ended { at, .. }
        | Change::Suspected { at, .. } => Some(at.0),
        Change::Freed { .. } => None,
    }
}

/// The milliseconds from a moment, where there is one, to a later one.
pub(crate) fn since(now: u64, at: Option<u64>) -> Option<u64>
    ensures { result ≡ since now at }
{
    match at {
        Some(at) => Some(now.saturating_sub(at)),
        None => None,
    }
}

/// Why a start failed, in words.
pub(crate) fn why_words(why: &FailWhy) -> &'static str
    ensures { result.now ≡ why_words why.now }
{
    match why {
        FailWhy::NodeRefused(_) => "the node refused",
        FailWhy::Unreachable => "the node did not answer",
        FailWhy::NotHttp => "the node's answer is not HTTP",
        FailWhy::BadReply => "the node's answer names no session",
        FailWhy::Mismatch => "the node's session has other capabilities than were asked for",
        FailWhy::NodeGone => "the node is gone",
        FailWhy::Duplicate => "the node's session has the id of one that runs",
        FailWhy::Late => "the request was settled before",
        FailWhy::NoMemory => "the hub found no memory",
    }
}

/// What the node said to it.
pub(crate) fn node_words(why: &FailWhy) -> Option<&str>
    ensures { option_copied result ≡ node_words why.now }
{
    match why {
        FailWhy::NodeRefused(words) => Some(words.as_str()),
        _ => None,
    }
}

/// The words for a failed start: it was the request's last one, or other nodes are tried.
pub(crate) fn failed_words(last: bool) -> &'static str
    ensures { result.now ≡ failed_words last }
{
    if last {
        "request refused"
    } else {
        "start failed"
    }
}

/// Who ended a session.
pub(crate) fn cause_word(cause: EndCause) -> &'static str
    ensures { result.now ≡ cause_word cause }
{
    match cause {
        EndCause::Quit => "client",
        EndCause::Idle => "idle",
    }
}
