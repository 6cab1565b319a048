//! The grid in one thread over a keeper: serves one connection over standard input and output, and keeps its calls in an SQL
//! database, from which the next run goes on.
#![tactic(auto)]

use grid_console::{Asked, NoWords, words};
use grid_outside::{Sink, Source, StandardInput, StandardOutput};
use grid_types::Text;
use kept_play::kept_run;
use row_keeper::Keeper;
use sql_keeper::{EitherKeeper, SqlKeeper};
use sqlite::{Alter, Connection, FileFrom, FileStore, MemStore, Start, Unknown};
use std::alloc::Global;
use std::process::ExitCode;

/// How the program is called.
const USAGE: &str = "\
usage: grid_keeper play NODE SLOTS [NODE SLOTS]..                one connection on standard input and output
       grid_keeper --keep FILE play NODE SLOTS [NODE SLOTS]..    its calls are kept in the database FILE
";

/// The table of rows.
const TABLE: &str =
    "CREATE TABLE IF NOT EXISTS turns (number INTEGER PRIMARY KEY, body BLOB NOT NULL)";

/// The words do not fit.
const REFUSED: u8 = 2;

/// Memory was wanted and there was none.
const NO_MEMORY: u8 = 5;

/// The database can't be opened, or is no keeper's.
const KEEPER_FAILED: u8 = 8;

/// A connection to a database in memory or to one in a file.
#[derive(Drop)]
enum Opened<M: Alter, F: Alter> {
    Memory(Connection<M>),
    File(Connection<F>),
}

/// A keeper over the connection, where it can be one.
fn keeper_of<S: Alter + Drop>(conn: Connection<S>) -> Option<SqlKeeper<S>> {
    let mut conn = conn;
    conn.execute_batch(TABLE).ok()?;
    SqlKeeper::adopt(conn).ok()
}

fn either_of<M: Alter + Drop, F: Alter + Drop>(opened: Opened<M, F>) -> Option<EitherKeeper<M, F>> {
    match opened {
        Opened::Memory(conn) => Some(EitherKeeper::Memory(keeper_of(conn)?)),
        Opened::File(conn) => Some(EitherKeeper::File(keeper_of(conn)?)),
    }
}

// These are over any ends, keepers and stores: the check of a call that names an input, a keeper or a store of the program takes
// many times as long. So a store is named where it is opened, and handed on in one function alone.

fn status_over<S: Source, K: Sink, P: Keeper + Drop>(
    alloc: Global,
    words: &[Text],
    input: &mut S,
    output: &mut K,
    keeper: P,
) -> u8 {
    let (status, _keeper) = kept_run(alloc, words, input, output, keeper);
    status
}

/// Plays what the words say over the keeper.
fn play_over<P: Keeper + Drop>(rt: &HostRuntime, keeper: P, words: &[Text]) -> u8 {
    let mut input = StandardInput::new(rt);
    let mut output = StandardOutput::new(rt);
    status_over(rt.alloc(), words, &mut input, &mut output, keeper)
}

/// Plays over a keeper over the database, where it can be one's.
fn play_by<M: Alter + Drop, F: Alter + Drop>(
    rt: &HostRuntime,
    opened: Opened<M, F>,
    words: &[Text],
) -> u8 {
    match either_of(opened) {
        Some(keeper) => play_over(rt, keeper, words),
        None => KEEPER_FAILED,
    }
}

/// Opens the file of this path, or else a database in memory. Err is the status where that can't be.
fn open<S: Start + Drop>(
    rt: &HostRuntime,
    path: Option<&Text>,
    start: S,
) -> Result<Opened<MemStore, FileStore<FileFrom<S>>>, u8> {
    match path {
        Some(path) => match Connection::open_from(rt, path.as_str(), false, start) {
            Ok(conn) => Ok(Opened::File(conn)),
            Err(_) => Err(KEEPER_FAILED),
        },
        None => match Connection::open_in_memory(rt.alloc()) {
            Ok(conn) => Ok(Opened::Memory(conn)),
            Err(_) => Err(NO_MEMORY),
        },
    }
}

/// Plays over the file of this path, or else over a database in memory.
fn play<S: Start + Drop>(rt: &HostRuntime, path: Option<&Text>, start: S, words: &[Text]) -> u8 {
    match open(rt, path, start) {
        Ok(opened) => play_by(rt, opened, words),
        Err(status) => status,
    }
}

/// Runs what the arguments say, or tells what they ask of the program.
fn status_of(rt: &HostRuntime, words: &[Text]) -> u8 {
    if let Some(asked) = Asked::of(words) {
        asked.tell(rt, "grid_keeper", USAGE);
        return 0;
    }
    match words {
        [first, path, others @ ..] if first.as_str() == "--keep" => {
            play(rt, Some(path), Unknown, others)
        }
        _ => play(rt, None, Unknown, words),
    }
}

fn main(rt: HostRuntime) -> ExitCode {
    let status = match words(&rt) {
        Ok(words) => status_of(&rt, words.as_slice()),
        Err(NoWords::NotText) => REFUSED,
        Err(NoWords::Memory) => NO_MEMORY,
    };
    ExitCode::from(status)
}
