//! Whole connections over a shared hub, whatever the pieces in which their bytes come and go.
ghost use Rattle.hub_cell.specs.Passes.{IsOf};

use crate::grid::{Wanted, asked, serves};
use crate::tables::{
    MaliciousRow, PIECES, Play, client_in, malicious_play, nodes_of, registers, sent, text_of,
};
use grid_types::HubConfig;
use hub_cell::{Pass, SharedHub};
use hub_serving::Served;
use std::alloc::Global;
use std::sync::Wait;

/// A play over one hub: the requests that come before, those of the play, and what is to be seen.
#[derive(Clone, Copy)]
struct Scene<'a> {
    play: &'a Play,
    registers: &'a [u8],
    sends: &'a [u8],
    wanted: Wanted<'a>,
}

/// Whether it goes so over this hub where a read gives and a write takes so many bytes at most.
fn goes_over<R: Wait>(
    rt: &R,
    alloc: Global,
    hub: &SharedHub,
    pass: &mut Pass,
    scene: &Scene<'_>,
    gives: usize,
    takes: usize,
) -> Option<bool>
    requires { IsOf hub.now pass.old }
    ensures { IsOf hub.now pass.new }
{
    drop(asked(rt, alloc, hub, pass, scene.registers)?);
    let client = client_in(scene.sends, gives, takes);
    let mut nodes = nodes_of(alloc, scene.play.replies, &[])?;
    let so = serves(rt, alloc, hub, pass, &mut nodes, &client, &scene.wanted);
    drop(nodes);
    so
}

/// A request waits for a second.
fn config() -> HubConfig {
    HubConfig {
        timeout_ms: 1_000,
        ..HubConfig::default()
    }
}

/// Over a hub of its own.
fn goes<R: Wait>(
    rt: &R,
    alloc: Global,
    scene: &Scene<'_>,
    gives: usize,
    takes: usize,
) -> Option<bool> {
    let config = config();
    if !config.is_valid() {
        return None;
    }
    let (hub, mut pass) = SharedHub::new(rt, alloc, config, 0, 1).ok()?;
    let so = goes_over(rt, alloc, &hub, &mut pass, scene, gives, takes);
    pass.let_go();
    hub.close(rt);
    so
}

/// In each of the pieces.
fn goes_in_pieces<R: Wait>(rt: &R, alloc: Global, scene: &Scene<'_>) -> Option<bool> {
    for (gives, takes) in &PIECES {
        if !goes(rt, alloc, scene, *gives, *takes)? {
            return Some(false);
        }
    }
    Some(true)
}

/// Whether the play goes as it says in each of the pieces.
fn goes_so<R: Wait>(rt: &R, alloc: Global, play: &Play) -> Option<bool> {
    let told = text_of(alloc, play.told)?;
    let registers = registers(alloc, play.nodes)?;
    let sends = sent(alloc, play.sends)?;
    let ended = Served {
        frames: play.frames,
        end: play.end,
        short: false,
    };
    let wanted = Wanted {
        written: told.as_bytes(),
        ended: Ok(ended),
        asks: play.asks,
    };
    let scene = Scene {
        play,
        registers: registers.as_slice(),
        sends: sends.as_slice(),
        wanted,
    };
    goes_in_pieces(rt, alloc, &scene)
}

/// Whether they go so.
pub(crate) fn all_go<R: Wait>(rt: &R, alloc: Global, plays: &[Play]) -> bool {
    for play in plays {
        if goes_so(rt, alloc, play) != Some(true) {
            return false;
        }
    }
    true
}

/// Whether a hub without nodes refuses them so.
pub(crate) fn are_refused<R: Wait>(rt: &R, alloc: Global, rows: &[MaliciousRow]) -> bool {
    for row in rows {
        let play = malicious_play(row);
        if goes_so(rt, alloc, &play) != Some(true) {
            return false;
        }
    }
    true
}
