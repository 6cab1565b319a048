//! What a hub keeps, as an input that grows with it.
ghost use Rattle.std.specs.Prelude.{◌≡◌, ℕ, ◌<◌, ◌≤◌, None, min, length};

use crossbeam_channel::{Receiver, TryRecvError};
use grid_outside::{Failed, Source};
use journal_keeper::Sight;
use std::alloc::Global;
use std::fs::File;
use std::sync::Wait;
use std::sync::atomic::{AtomicBool, AtomicU64, Ordering};
use std::time::Duration;

/// The milliseconds of a pause where there is nothing to tell.
const PAUSE_MS: u64 = 50;

/// So many pauses are about a second.
const PAUSES_A_SECOND: u64 = 20;

/// The journal that a hub enters, from its head on, as far as somebody was told of it. It is read until the hub is done.
///
/// Each second it makes what was appended to the hub's file stay on the disk.
#[derive(Drop)]
pub struct Sights<'a, R: Wait + Eprint> {
    runtime: &'a R,
    program: &'static str,
    coming: Receiver<Sight>,
    files: Receiver<File>,
    file: Option<File>,
    done: &'a AtomicBool,
    /// The head, until something has come.
    head: Option<Vec<u8>>,
    bytes: Vec<u8>,
    at: usize,
    pauses: u64,
    ends: u64,
    ghost within: { at ≤ length bytes.items },
}

/// Copies to the front of `into` as many bytes as both hold.
fn copy_front(into: &mut [u8], from: &[u8]) -> usize
    ensures { result ≡ min (length into.old) (length from.now) }
{
    let count = into.len().min(from.len());
    let front = &mut into[..count];
    front.copy_from_slice(&from[..count]);
    count
}

/// Waits for as long as a pause is where there is nothing to tell.
pub(crate) fn wait_a_while<R: Wait>(rt: &R) {
    AtomicU64::new(0).park_timeout(rt, 0, Duration::from_millis(PAUSE_MS));
}

impl<'a, R: Wait + Eprint> Sights<'a, R> {
    /// The bytes of the head, once something comes, and then of what comes. `files` is where the hub's file comes, if it has one.
    pub fn new(
        runtime: &'a R,
        alloc: Global,
        program: &'static str,
        coming: Receiver<Sight>,
        files: Receiver<File>,
        done: &'a AtomicBool,
        head: Vec<u8>,
    ) -> Self {
        Sights {
            runtime,
            program,
            coming,
            files,
            file: None,
            done,
            head: Some(head),
            bytes: Vec::new(alloc),
            at: 0,
            pauses: 0,
            ends: 0,
        }
    }

    /// Says what no entry tells.
    fn say(&self, what: &str) {
        let program = self.program;
        let _ = eprintln!(self.runtime; "{program}: {what}");
    }

    /// The bytes of entries come next, the first of them behind the head. Those for which there is no memory there are let go.
    fn put(&mut self, bytes: Vec<u8>)
        ensures { self.new.ends ≡ self.old.ends }
    {
        let Some(mut front) = self.head.take() else {
            self.at = 0;
            self.bytes = bytes;
            return;
        };
        if front.extend_from_slice(bytes.as_slice()).is_err() {
            self.head = Some(front);
            return;
        }
        self.at = 0;
        self.bytes = front;
    }

    /// Takes a sight in.
    fn take_in(&mut self, sight: Sight)
        ensures { self.new.ends ≡ self.old.ends }
    {
        match sight {
            Sight::Entries(bytes) => self.put(bytes),
            Sight::Missed(turns) => {
                let program = self.program;
                let _ = eprintln!(self.runtime;
                    "{program}: what {turns} calls did is not told here, as there was no room for it"
                );
            }
            Sight::Waits => self.say(
                "the journal can't be written, and all calls wait until it can; is the disk full?",
            ),
            Sight::GoesOn => self.say("the journal is written again"),
        }
    }

    /// Makes what was appended stay on the disk.
    fn sync(&mut self)
        ensures { self.new.ends ≡ self.old.ends }
    {
        if let Ok(file) = self.files.try_recv(self.runtime) {
            self.file = Some(file);
        }
        if let Some(file) = &self.file {
            if file.sync_data().is_err() {
                self.say("what was written to the journal may not stay there if the power fails");
            }
        }
    }

    /// Waits for a while, and looks after the disk about each second.
    fn pause(&mut self)
        ensures { self.new.ends ≡ self.old.ends }
    {
        self.pauses = self.pauses.saturating_add(1);
        if self.pauses >= PAUSES_A_SECOND {
            self.pauses = 0;
            self.sync();
        }
        wait_a_while(self.runtime);
    }

    /// Hands out bytes that have come.
    fn hand_out(&mut self, into: &mut [u8]) -> usize
        ensures count { result ≤ length into.old }
        ensures ends { self.new.ends ≡ self.old.ends }
    {
        let count = copy_front(into, &self.bytes.as_slice()[self.at..]);
        self.at += count;
        count
    }

    /// Does what comes next, where no byte waits. False: there is nothing more.
    fn go_on(&mut self) -> bool
        ensures { self.new.ends ≡ self.old.ends }
    {
        match self.coming.try_recv(self.runtime) {
            Ok(sight) => {
                self.take_in(sight);
                true
            }
            Err(TryRecvError::Empty) => {
                let done = self.done.load(Ordering::SeqCst);
                if !done {
                    self.pause();
                }
                !done
            }
            Err(_) => false,
        }
    }

    /// Looks after the disk until the hub is done, where nobody is told any more.
    pub fn keep_on(&mut self) {
        for _ in self.runtime.forever() {
            self.at = self.bytes.len();
            if !self.go_on() {
                return;
            }
        }
    }
}

impl<R: Wait + Eprint> Source for Sights<'_, R> {
    ghost view = { λ s. record { given = None; ends = s.ends; faults = 0 } };

    fn read(&mut self, into: &mut [u8]) -> Result<usize, Failed> {
        if into.is_empty() {
            return Ok(0);
        }
        for _ in self.runtime.forever() {
            let count = self.hand_out(into);
            if count > 0 {
                return Ok(count);
            }
            if !self.go_on() {
                break;
            }
        }
        self.ends = self.ends.saturating_add(1);
        Ok(0)
    }
}
