//! A hub, a node, or a driver behind a hub, by a configuration on standard input.
#![tactic(auto)]

use grid_config::{
    ConfigFault, KeptInput, Mode, Row, WordList, attach_config_main, attach_config_words,
    attach_rows, config_main_by, config_words, reason_of, rows_of,
};
use grid_console::{Asked, NoWords, ToldBind, ToldHub, ToldNodes, words};
use grid_outside::{Clock, Door, NodeLink, Source, StandardInput};
use grid_sockets::{MachineClock, TcpDoor, TcpNodes};
use grid_types::Text;
use hub_journal::{FileHub, HubSide, run_told};
use hub_server::Begins;
use server_words::{hub_reason, node_reason};
use std::alloc::Global;
use std::process::ExitCode;
use std::sync::Wait;
use std::thread::Threads;

/// What lines on standard error begin with.
const NAME: &str = "grid_config";

/// How the program is called.
const USAGE: &str = "\
usage: grid_config hub|node|attach < FILE
  hub      the hub
  node     a node in memory
  attach   a driver that already runs, behind a hub
FILE is a configuration in TOML
";

/// Other words than one program's name.
const OTHER_WORDS: u8 = 8;

/// The program does not take what the text says.
const REFUSED: u8 = 2;

/// The text is no configuration.
const FAULTY: u8 = 9;

/// Out of memory.
const NO_MEMORY: u8 = 5;

type Input = KeptInput<StandardInput<HostRuntime>>;

/// The one word; empty where it is not one.
fn word(words: &[Text]) -> &str {
    match words {
        [word] => word.as_str(),
        _ => "",
    }
}

// This and `served` take any ends, since the check of a call whose clauses are written out for these ends takes many times as long.
fn attached<S: Source, N: NodeLink, C: Clock>(
    alloc: Global,
    input: &mut S,
    nodes: &mut N,
    clock: &mut C,
) -> u8 {
    attach_config_main(alloc, input, nodes, clock, u64::MAX)
}

fn run_attach(rt: HostRuntime, input: &mut Input) -> u8 {
    let mut nodes = ToldNodes::new(rt, NAME, TcpNodes::new(rt), None);
    let mut clock = MachineClock::new(rt);
    attached(rt.alloc(), input, &mut nodes, &mut clock)
}

/// What the text says to the program of this name, and the keys that it has.
fn said(alloc: Global, word: &str, text: &[u8]) -> (Result<WordList, ConfigFault>, &'static [Row]) {
    match word {
        "attach" => (attach_config_words(alloc, text), attach_rows()),
        "node" => (config_words(alloc, Mode::Node, text), rows_of(Mode::Node)),
        _ => (config_words(alloc, Mode::Hub, text), rows_of(Mode::Hub)),
    }
}

/// What the program of this name does not take: the text's fault, or an address that is none.
fn reason(alloc: Global, word: &str, text: &[u8]) -> Option<String> {
    let (said, rows) = said(alloc, word, text);
    match (said, word) {
        (Err(fault), _) => reason_of(alloc, rows, text, &fault),
        (Ok(words), "hub") => hub_reason(alloc, words.words()),
        (Ok(words), "node") => node_reason(alloc, words.words()),
        _ => None,
    }
}

/// Says what is wrong with the text. The status says that something is where this can't be written.
fn explain(rt: HostRuntime, word: &str, input: &Input) {
    let Some(text) = input.kept() else {
        return;
    };
    if let Some(reason) = reason(rt.alloc(), word, text) {
        let _ = eprintln!(rt; "{NAME}: {reason}");
    }
}

/// Says how the program ended, where that is no success.
fn tell(rt: HostRuntime, status: u8) {
    if status != 0 {
        let _ = eprintln!(rt; "{NAME}: status {status}");
    }
    if status == OTHER_WORDS {
        let _ = eprint!(rt; "{USAGE}");
    }
}

fn served<R: Threads + Wait + Sync, S: Source, D: Door, B: Begins>(
    rt: &R,
    alloc: Global,
    words: &[Text],
    input: &mut S,
    door: &mut D,
    hub: &mut B,
) -> u8 {
    config_main_by(rt, alloc, words, input, door, hub)
}

/// What a program serves by.
#[derive(Clone, Copy)]
struct Job<'a, R> {
    rt: &'a R,
    host: HostRuntime,
    words: &'a [Text],
}

impl<R: Threads + Wait + Sync> Job<'_, R> {
    /// Runs a hub or a node, and says why there is no hub where there is none. Both have one kind of door, so that the program has
    /// all that serves links once: what is told of a node's hub concerns no hub.
    fn run_server(&self, input: &mut Input, side: HubSide) -> u8 {
        let host = self.host;
        let Ok(ahead) = side.ahead() else {
            return NO_MEMORY;
        };
        let door = TcpDoor::new(host, None).with_clocks_ahead(ahead);
        let mut door = ToldHub::new(host, NAME, ToldBind::new(host, NAME, door));
        let mut hub = FileHub::new(
            host.alloc(),
            host,
            TcpNodes::new(host),
            MachineClock::new(host),
            side,
        );
        let status = served(
            self.rt,
            host.alloc(),
            self.words,
            input,
            &mut door,
            &mut hub,
        );
        if let Some(trouble) = hub.trouble() {
            let path = hub.path();
            let _ = eprintln!(host; "{NAME}: the journal {path}: {trouble}");
        }
        status
    }

    /// Does what the one word says by the configuration on standard input, and says what is wrong with that.
    fn serve(self, side: HubSide) -> u8 {
        let host = self.host;
        let mut input = KeptInput::new(host.alloc(), StandardInput::new(host));
        let status = match word(self.words) {
            "attach" => run_attach(host, &mut input),
            _ => self.run_server(&mut input, side),
        };
        if status == FAULTY || status == REFUSED {
            explain(host, word(self.words), &input);
        }
        status
    }
}

/// Runs what the words say, or tells what they ask of the program.
fn run<R: Threads + Wait + Eprint + Sync>(rt: &R, host: HostRuntime, words: &[Text]) -> u8 {
    if let Some(asked) = Asked::of(words) {
        asked.tell(&host, NAME, USAGE);
        return 0;
    }
    let job = Job { rt, host, words };
    let clock = MachineClock::new(host);
    run_told(rt, host.alloc(), NAME, clock, move |side| job.serve(side))
}

fn main(rt: HostRuntime) -> ExitCode {
    let status = match words(&rt) {
        Ok(words) => run(&rt, rt, words.as_slice()),
        Err(NoWords::NotText) => OTHER_WORDS,
        Err(NoWords::Memory) => NO_MEMORY,
    };
    tell(rt, status);
    ExitCode::from(status)
}
