//! Blocks are read, served and answered one behind the other.
ghost use Rattle.std.specs.Prelude.{◌≡◌, ◌≤◌, ◌<◌, List, length, OnOk};
ghost use Rattle.team_words.specs.declared.team_play.TeamPlay.{TeamPlay};
ghost use Rattle.grid_teams_top.specs.declared.playing.TheConstants.{MOST_BLOCK_BYTES};
ghost use Rattle.grid_teams_top.specs.Blocks.{AllPlay, standings};
ghost use Rattle.grid_teams_run.specs.Running.{RunsTo, run_of};
ghost use Rattle.grid_teams_run.specs.Steps.{AnswersSo, NextSo, WritesSo, output_of};

use crate::limits::MOST_INPUT_BYTES;
use crate::run_end::RunEnd;
use block_frames::{NextBlock, ReadFault, WriteFault, read_block, write_block};
use grid_outside::{Sink, Source};
use grid_teams_top::{MOST_BLOCK_BYTES, PlayingTeam, serve_block};
use grid_types::NoMemory;
use std::alloc::Global;

/// Writes what goes out for a block.
fn write_out<K: Sink>(output: &mut K, out: &[u8]) -> Result<(), RunEnd>
    ensures written { WritesSo out.now result
        (output_of (K.view output.old).taken (K.view output.old).faults)
        (output_of (K.view output.new).taken (K.view output.new).faults) }
    ensures later { (K.view output.old).faults ≤ (K.view output.new).faults }
{
    match write_block(output, out) {
        Ok(()) => Ok(()),
        Err(WriteFault::TooLong) => Err(RunEnd::TooLong),
        Err(WriteFault::Write) => Err(RunEnd::Write),
    }
}

/// Serves the block, and writes what goes out for it.
fn answer<K: Sink>(
    alloc: Global,
    teams: &mut [PlayingTeam],
    bytes: &[u8],
    output: &mut K,
) -> Result<(), RunEnd>
    requires { length bytes.now ≤ MOST_BLOCK_BYTES }
    ensures answers { (said : List TeamPlay) → AllPlay said teams.old →
        AnswersSo said teams.old bytes.now result teams.new
        (output_of (K.view output.old).taken (K.view output.old).faults)
        (output_of (K.view output.new).taken (K.view output.new).faults) }
    ensures later { (K.view output.old).faults ≤ (K.view output.new).faults }
{
    match serve_block(alloc, teams, bytes) {
        Ok(out) => write_out(output, out.as_bytes()),
        Err(NoMemory) => Err(RunEnd::Memory),
    }
}

/// Reads the block that stands next, serves it, and writes what goes out for it. `left` is how many bytes may be read.
fn serve_next<S: Source, K: Sink>(
    alloc: Global,
    teams: &mut [PlayingTeam],
    input: &mut S,
    output: &mut K,
    left: &mut u64,
) -> Result<(), RunEnd>
    requires { 0 < left.old }
    ensures next { (said : List TeamPlay) → AllPlay said teams.old →
        NextSo said teams.old left.old left.new result teams.new
        (run_of (S.view input.old)
        (K.view output.old).taken (K.view output.old).faults)
        (run_of (S.view input.new)
        (K.view output.new).taken (K.view output.new).faults) }
    ensures fewer { OnOk result (left.new < left.old) }
    ensures input_later { (S.view input.old).faults ≤ (S.view input.new).faults }
    ensures output_later { (K.view output.old).faults ≤ (K.view output.new).faults }
{
    match read_block(alloc, input, MOST_BLOCK_BYTES, left) {
        Ok(NextBlock::Block(bytes)) => answer(alloc, teams, bytes.as_bytes(), output),
        Ok(NextBlock::Between) => Err(RunEnd::Between),
        Ok(NextBlock::Inside) => Err(RunEnd::Inside),
        Ok(NextBlock::AtLimit) => Err(RunEnd::AtLimit),
        Ok(NextBlock::TooLong) => Err(RunEnd::TooLong),
        Err(ReadFault::Read) => Err(RunEnd::Read),
        Err(ReadFault::Memory) => Err(RunEnd::Memory),
    }
}

/// Serves the blocks of the input, until the run ends.
pub(crate) fn serve_all<S: Source, K: Sink>(
    alloc: Global,
    teams: &mut [PlayingTeam],
    input: &mut S,
    output: &mut K,
) -> RunEnd
    ensures { (said : List TeamPlay) → AllPlay said teams.old →
        RunsTo said (standings teams.old) result
        (run_of (S.view input.old)
        (K.view output.old).taken (K.view output.old).faults)
        (run_of (S.view input.new)
        (K.view output.new).taken (K.view output.new).faults) }
{
    let mut left = MOST_INPUT_BYTES;
    'each: while left > 0 {
        match serve_next(alloc, teams, input, output, &mut left) {
            Ok(()) => {}
            Err(end) => return end,
        }
    }
    RunEnd::AtLimit
}
