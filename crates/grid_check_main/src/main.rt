//! Makes the journal of a simulation on standard output, or checks a journal on standard input.
#![tactic(auto)]

use grid_check::check_main;
use grid_console::{Asked, NoWords, words};
use grid_outside::{Sink, Source, StandardInput, StandardOutput};
use grid_types::Text;
use std::alloc::Global;
use std::process::ExitCode;

/// How the program is called.
const USAGE: &str = "\
usage: grid_check check < JOURNAL          says whether it is the journal of a legal history
       grid_check make NUMBER > JOURNAL    writes the journal of a number's simulation
";

// Over any ends: the check of a call that has its clauses written out for these ends takes many times as long.
fn status_over<S: Source, K: Sink>(
    alloc: Global,
    words: &[Text],
    input: &mut S,
    output: &mut K,
) -> u8 {
    check_main(alloc, words, input, output)
}

/// Runs what the arguments say, or tells what they ask of the program.
fn status_of(rt: HostRuntime, words: &[Text]) -> u8 {
    if let Some(asked) = Asked::of(words) {
        asked.tell(&rt, "grid_check", USAGE);
        return 0;
    }
    let alloc: Global = rt.alloc();
    let mut input = StandardInput::new(&rt);
    let mut output = StandardOutput::new(&rt);
    status_over(alloc, words, &mut input, &mut output)
}

fn main(rt: HostRuntime) -> ExitCode {
    let status = match words(&rt) {
        Ok(words) => status_of(rt, words.as_slice()),
        Err(NoWords::NotText) => 8,
        Err(NoWords::Memory) => 7,
    };
    ExitCode::from(status)
}
