//! A block is served by the team that it names.
ghost use Rattle.std.specs.Prelude.{◌≡◌, ◌≤◌, ◌++◌, ◌∷◌, [], List, ℕ, IfOk, OnOk, length};
ghost use Rattle.http_frames.specs.Feeding.{Fed};
ghost use Rattle.http_frames.specs.declared.frames.FrameLimits.{FrameLimits};
ghost use Rattle.grid_teams_top.specs.declared.playing.TheConstants.{MOST_BLOCK_BYTES};
ghost use Rattle.team_words.specs.declared.team_play.TeamPlay.{TeamPlay};
ghost use Rattle.grid_teams_top.specs.Blocks.{AllPlay, AllShort, ServedByName, ServesBlock, ServesBlocks, standings};
ghost use Rattle.grid_teams_top.specs.Refusals.{IsAnswer};

use crate::heads::feed_head;
use crate::playing::{MOST_BLOCK_BYTES, PlayingTeam, serve_at};
use conn_script::responses::failure;
use conn_script::{fixed_limits as read_limits, refusal};
use grid_teams::{NO_SUCH_TEAM, NOT_NAMED, TeamName, place_in, team_of};
use grid_types::{Bytes, NoMemory};
use http_frames::{
    FrameReader, LIMITS, ReaderStep, fixed_limits, one_head, one_reading, refused_heads_stay, stays,
};
use std::alloc::Global;
use wd_bodies::ErrorCode;

/// What a client is told whose head is not accepted: why it is refused, or nothing where it is cut off.
fn refuse(alloc: Global, reader: &FrameReader) -> Result<Bytes, NoMemory>
    ensures { IfOk result (λ out. (limits : FrameLimits) (bytes : List ℕ) → Fed limits reader.now bytes →
        IsAnswer limits bytes out) }
{
    match reader.step() {
        ReaderStep::Refused(why) => refusal(alloc, why),
        ReaderStep::More { expects: _ } => Ok(Bytes::from_vec(Vec::new(alloc))),
        ReaderStep::Whole(_frame) => Ok(Bytes::from_vec(Vec::new(alloc))),
    }
}

/// Serves a block by the team of that name, if there is one.
fn serve_named(
    alloc: Global,
    teams: &mut [PlayingTeam],
    name: &[u8],
    bytes: &[u8],
) -> Result<Bytes, NoMemory>
    requires { length bytes.now ≤ MOST_BLOCK_BYTES }
    ensures { IfOk result (λ out. ServedByName teams.old name.now bytes.now out teams.new) }
{
    match place_in(&*teams, name) {
        Some(place) => serve_at(alloc, teams, place, bytes),
        None => failure(alloc, ErrorCode::InvalidArgument, NO_SUCH_TEAM, true),
    }
}

/// Serves a block of bytes, which is one connection, by the team that its first head names, and gives what was written. No other team
/// is touched, and where it names none that is there none is. Err is want of memory: no block is to be served behind it.
pub fn serve_block(
    alloc: Global,
    teams: &mut [PlayingTeam],
    bytes: &[u8],
) -> Result<Bytes, NoMemory>
    requires { length bytes.now ≤ MOST_BLOCK_BYTES }
    ensures { IfOk result (λ out. (said : List TeamPlay) → AllPlay said teams.old →
        ServesBlock said (standings teams.old) bytes.now out (standings teams.new) × AllPlay said teams.new) }
{
    let mut reader = FrameReader::new(alloc, LIMITS);
    feed_head(&mut reader, bytes)?;
    // Laws of what lies below, which do nothing.
    stays();
    one_head();
    refused_heads_stay();
    one_reading();
    fixed_limits();
    read_limits();
    match team_of(&reader) {
        TeamName::Named(name) => serve_named(alloc, teams, name, bytes),
        TeamName::Unnamed => failure(alloc, ErrorCode::InvalidArgument, NOT_NAMED, true),
        TeamName::NoHead => refuse(alloc, &reader),
    }
}

fn add(outs: &mut Vec<Bytes>, out: Bytes) -> Result<(), NoMemory>
    ensures { OnOk result (outs.new.items ≡ outs.old.items ++ out ∷ []) }
{
    match outs.push(out) {
        Ok(()) => Ok(()),
        Err(_) => Err(NoMemory),
    }
}

/// Serves blocks one behind the other, each by the team that it names, and gives what was written for each. Err is want of memory.
///
/// What is written for the blocks of one team is what is written for the list of these blocks alone:
/// [`teams_are_apart`](crate::teams_are_apart).
pub fn serve_blocks(
    alloc: Global,
    teams: &mut [PlayingTeam],
    blocks: &[Bytes],
) -> Result<Vec<Bytes>, NoMemory>
    requires { AllShort blocks.now }
    ensures { IfOk result (λ outs. (said : List TeamPlay) → AllPlay said teams.old →
        ServesBlocks said (standings teams.old) blocks.now outs.items (standings teams.new)) }
{
    let mut outs = Vec::new(alloc);
    let mut at = 0;
    'each: while at < blocks.len() {
        let out = serve_block(alloc, teams, blocks[at].as_bytes())?;
        add(&mut outs, out)?;
        at += 1;
    }
    Ok(outs)
}
