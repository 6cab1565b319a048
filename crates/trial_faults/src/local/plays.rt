//! Whole connections over a hub of one thread, whatever the pieces in which their bytes come and go.
use crate::grid::Wanted;
use crate::local::grid::{are_behind, asked, serves};
use crate::tables::{
    MaliciousRow, PIECES, Play, client_in, malicious_play, nodes_of, registers, sent, text_of,
};
use grid_types::{HubConfig, NodeNo};
use hub_conn::Served;
use hub_core::LocalHub;
use std::alloc::Global;

/// Where a request waits for so many milliseconds.
pub(crate) fn waiting(timeout_ms: u64) -> HubConfig {
    HubConfig {
        timeout_ms,
        ..HubConfig::default()
    }
}

/// A play over one hub: how the hub is set up, its own nodes, the requests that come before, those of the play, what is to be seen, and
/// the entries that the play makes, where these are compared.
#[derive(Clone, Copy)]
struct Scene<'a> {
    play: &'a Play,
    config: HubConfig,
    own: &'a [NodeNo],
    registers: &'a [u8],
    sends: &'a [u8],
    wanted: Wanted<'a>,
    entries: Option<&'a str>,
}

fn makes(hub: &LocalHub, first: usize, entries: Option<&str>) -> bool {
    match entries {
        Some(words) => are_behind(hub.journal(), first, words),
        None => true,
    }
}

/// Whether it goes so over this hub where a read gives and a write takes so many bytes at most.
fn goes_over(
    alloc: Global,
    hub: &mut LocalHub,
    scene: &Scene<'_>,
    gives: usize,
    takes: usize,
) -> Option<bool> {
    drop(asked(alloc, hub, scene.registers)?);
    let first = hub.journal().len();
    let client = client_in(scene.sends, gives, takes);
    let mut nodes = nodes_of(alloc, scene.play.replies, &[])?;
    let is_seen = serves(alloc, hub, scene.own, &mut nodes, &client, &scene.wanted);
    drop(nodes);
    Some(is_seen? && makes(hub, first, scene.entries))
}

/// Over a hub of its own.
fn goes(alloc: Global, scene: &Scene<'_>, gives: usize, takes: usize) -> Option<bool> {
    if !scene.config.is_valid() {
        return None;
    }
    let mut hub = LocalHub::new(alloc, scene.config).ok()?;
    let so = goes_over(alloc, &mut hub, scene, gives, takes);
    drop(hub);
    so
}

/// In each of the pieces.
fn goes_in_pieces(alloc: Global, scene: &Scene<'_>) -> Option<bool> {
    for (gives, takes) in &PIECES {
        if !goes(alloc, scene, *gives, *takes)? {
            return Some(false);
        }
    }
    Some(true)
}

/// Whether the play goes as it says in each of the pieces, and makes these entries where they are compared.
pub(crate) fn makes_entries(
    alloc: Global,
    play: &Play,
    own: &[NodeNo],
    config: HubConfig,
    entries: Option<&str>,
) -> Option<bool> {
    let told = text_of(alloc, play.told)?;
    let registers = registers(alloc, play.nodes)?;
    let sends = sent(alloc, play.sends)?;
    let ended = Served {
        frames: play.frames,
        end: play.end,
        short: false,
    };
    let wanted = Wanted {
        written: told.as_bytes(),
        ended: Ok(ended),
        asks: play.asks,
    };
    let scene = Scene {
        play,
        config,
        own,
        registers: registers.as_slice(),
        sends: sends.as_slice(),
        wanted,
        entries,
    };
    goes_in_pieces(alloc, &scene)
}

/// Whether they go so where a request waits for a second.
pub(crate) fn all_go(alloc: Global, plays: &[Play], own: &[NodeNo]) -> bool {
    for play in plays {
        if makes_entries(alloc, play, own, waiting(1_000), None) != Some(true) {
            return false;
        }
    }
    true
}

/// Whether a hub without nodes refuses them so.
pub(crate) fn are_refused(alloc: Global, rows: &[MaliciousRow]) -> bool {
    for row in rows {
        let play = malicious_play(row);
        if makes_entries(alloc, &play, &[], waiting(1_000), None) != Some(true) {
            return false;
        }
    }
    true
}
