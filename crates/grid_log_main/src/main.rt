//! Writes the log of the journal on standard input to standard output.
#![tactic(auto)]

use grid_console::{Asked, NoWords, words};
use grid_outside::{Clock, Sink, Source, StandardInput, StandardOutput};
use grid_report::report_main;
use grid_sockets::MachineClock;
use grid_types::Text;
use std::alloc::Global;
use std::process::ExitCode;

/// How the program is called.
const USAGE: &str = "\
usage: grid_log [--json] < JOURNAL            a line for each event of a hub's journal, or an object of JSON
       grid_log --follow [--json] < JOURNAL   the same, and of what is written behind it later
       grid_log --metrics < JOURNAL           counts and gauges, in the text format of Prometheus
       grid_log --page < JOURNAL              a page of HTML: nodes, slots, what waits, the last hour
";

// Over any ends: the check of a call that has its clauses written out for these ends takes many times as long.
fn status_over<S: Source, K: Sink, C: Clock>(
    alloc: Global,
    words: &[Text],
    input: &mut S,
    output: &mut K,
    clock: &mut C,
) -> u8 {
    report_main(alloc, words, input, output, clock)
}

/// Runs what the arguments say, or tells what they ask of the program.
fn status_of(rt: HostRuntime, words: &[Text]) -> u8 {
    if let Some(asked) = Asked::of(words) {
        asked.tell(&rt, "grid_log", USAGE);
        return 0;
    }
    let alloc: Global = rt.alloc();
    let mut input = StandardInput::new(&rt);
    let mut output = StandardOutput::new(&rt);
    let mut clock = MachineClock::new(rt);
    status_over(alloc, words, &mut input, &mut output, &mut clock)
}

fn main(rt: HostRuntime) -> ExitCode {
    let status = match words(&rt) {
        Ok(words) => status_of(rt, words.as_slice()),
        Err(NoWords::NotText) => 8,
        Err(NoWords::Memory) => 7,
    };
    ExitCode::from(status)
}
