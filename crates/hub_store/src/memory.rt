//! A store in memory, for trials.
ghost use Rattle.std.specs.Prelude.{◌≡◌, ℕ, ◌<◌, ◌≤◌, min, true, List, [], Option, None, Some, is_none, IfOk, OnErr, OnOk, length, option_map, take};
ghost use Rattle.grid_outside.specs.Counts.{HasCause, Rose};
ghost use Rattle.grid_outside.specs.Told.{Gains};
ghost use Rattle.journal_keeper.specs.Keepings.{kept_by};

use crate::store::{Outset, Store};
use grid_outside::{Failed, Source};
use grid_types::{Bytes, HubConfig, Moment};
use journal_keeper::{Keeper, Keeping, MemKeeper};
use std::alloc::Global;
use std::sync::Wait;

/// A store in memory, which gives its bytes in pieces of at most `most`. Its calls are numbered from 0, reads and those that hand its
/// bytes over alike, and each whose number is planned fails.
#[derive(Drop)]
pub struct MemStore {
    bytes: Bytes,
    /// So many of them were given.
    at: usize,
    most: usize,
    planned: Vec<u64>,
    calls: u64,
    faults: u64,
    ends: u64,
    aside: Option<Bytes>,
    /// So often its bytes were to be handed over.
    handed: u64,
    now: Moment,
    alloc: Global,
    ghost within: { at ≤ length bytes },
    ghost some: { 0 < most },
}

/// Copies to the front of `into` as many bytes as both hold, at most `most`.
fn copy_front(into: &mut [u8], from: &[u8], most: usize) -> usize
    ensures count { result ≡ min most (min (length into.old) (length from.now)) }
    ensures front { take result into.new ≡ take result from.now }
{
    let count = most.min(into.len().min(from.len()));
    let front = &mut into[..count];
    front.copy_from_slice(&from[..count]);
    count
}

/// A file in memory with these bytes.
fn keeper_of(alloc: Global, bytes: &[u8]) -> Result<MemKeeper, Failed>
    ensures { IfOk result (λ keeper. keeper.bytes.items ≡ bytes.now) }
{
    let mut keeper = MemKeeper::new(alloc, 0, Vec::new(alloc));
    match keeper.append(bytes) {
        Ok(()) => Ok(keeper),
        Err(_) => Err(Failed),
    }
}

/// So many bytes from the front, or all where there are fewer.
fn front_of(bytes: &[u8], count: u64) -> &[u8]
    ensures { result.now ≡ take count bytes.now }
{
    match usize::try_from(count) {
        Ok(count) if count <= bytes.len() => &bytes[..count],
        _ => bytes,
    }
}

impl MemStore {
    ghost use Rattle.hub_store.specs.Memory.{given_by};

    /// The bytes, of which none was given yet; its clock stands at `now`.
    pub fn new(alloc: Global, bytes: Bytes, most: usize, planned: Vec<u64>, now: Moment) -> MemStore
        requires { 0 < most }
        ensures unread { given_by result ≡ [] }
    {
        MemStore {
            bytes,
            at: 0,
            most,
            planned,
            calls: 0,
            faults: 0,
            ends: 0,
            aside: None,
            handed: 0,
            now,
            alloc,
        }
    }

    /// What it put aside, if anything.
    pub fn aside(&self) -> Option<&[u8]> {
        match &self.aside {
            Some(bytes) => Some(bytes.as_bytes()),
            None => None,
        }
    }

    /// How often its bytes were to be handed over.
    pub fn handed(&self) -> u64 {
        self.handed
    }

    /// Counts the call, and says whether it is to fail.
    fn next_fails(&mut self) -> bool
        ensures bytes { self.new.bytes ≡ self.old.bytes }
        ensures at { self.new.at ≡ self.old.at }
        ensures aside { self.new.aside ≡ self.old.aside }
        ensures faults { self.new.faults ≡ self.old.faults }
        ensures ends { self.new.ends ≡ self.old.ends }
    {
        let call = self.calls;
        self.calls = call.saturating_add(1);
        self.planned.contains(&call)
    }

    /// Begins a call that hands its bytes over, at a moment not before `last`. False: it is to fail.
    fn begins(&mut self, last: Moment) -> bool
        ensures bytes { self.new.bytes ≡ self.old.bytes }
        ensures at { self.new.at ≡ self.old.at }
        ensures aside { self.new.aside ≡ self.old.aside }
        ensures faults { self.new.faults ≡ self.old.faults }
    {
        self.handed = self.handed.saturating_add(1);
        self.now = Moment(self.now.0.max(last.0));
        !self.next_fails()
    }

    /// It fails.
    fn fails<T>(&mut self) -> Result<T, Failed>
        ensures bytes { self.new.bytes ≡ self.old.bytes }
        ensures at { self.new.at ≡ self.old.at }
        ensures aside { self.new.aside ≡ self.old.aside }
        ensures ends { self.new.ends ≡ self.old.ends }
        ensures none { IfOk result (λ t. ⊥) }
        ensures cause { HasCause self.old.faults self.new.faults result }
    {
        self.faults = self.faults.saturating_add(1);
        Err(Failed)
    }

    /// What keeps these bytes from now on.
    fn outset(&mut self, keeper: MemKeeper) -> Outset
        ensures kept { kept_by result.keeping ≡ Some keeper.bytes.items }
        ensures at { result.at.0 ≡ self.new.now.0 }
        ensures same { self.new ≡ self.old }
    {
        Outset {
            keeping: Keeping::Memory(keeper),
            at: self.now,
        }
    }
}

impl Source for MemStore {
    ghost use Rattle.hub_store.specs.Memory.{given_by};

    ghost view = { λ s. record { given = Some (given_by s); ends = s.ends; faults = s.faults } };

    fn read(&mut self, into: &mut [u8]) -> Result<usize, Failed> {
        if self.next_fails() {
            return self.fails();
        }
        let bytes = self.bytes.as_bytes();
        let count = copy_front(into, &bytes[self.at..], self.most);
        self.at += count;
        if count == 0 {
            self.ends = self.ends.saturating_add(1);
        }
        Ok(count)
    }
}

impl Store for MemStore {
    ghost use Rattle.hub_store.specs.Memory.{aside_by, given_by};

    ghost aside = { aside_by };

    ghost moment = { λ s. s.now.0 };

    ghost untold = { λ one other none. none };

    fn keep_front<R: Wait>(
        &mut self,
        _rt: &R,
        _config: &HubConfig,
        last: Moment,
        whole: u64,
    ) -> Result<Outset, Failed> {
        if !self.begins(last) {
            return self.fails();
        }
        let bytes = self.bytes.as_bytes();
        match keeper_of(self.alloc, front_of(&bytes[..self.at], whole)) {
            Ok(keeper) => Ok(self.outset(keeper)),
            Err(_) => self.fails(),
        }
    }

    fn keep_anew<R: Wait>(
        &mut self,
        _rt: &R,
        _config: &HubConfig,
        head: &[u8],
    ) -> Result<Outset, Failed> {
        if !self.begins(Moment(0)) {
            return self.fails();
        }
        match keeper_of(self.alloc, head) {
            Ok(keeper) => Ok(self.outset(keeper)),
            Err(_) => self.fails(),
        }
    }

    fn keep_aside<R: Wait>(
        &mut self,
        _rt: &R,
        _config: &HubConfig,
        head: &[u8],
    ) -> Result<Outset, Failed> {
        if !self.begins(Moment(0)) {
            return self.fails();
        }
        let bytes = self.bytes.as_bytes();
        let (Ok(aside), Ok(keeper)) = (
            Bytes::of(self.alloc, &bytes[..self.at]),
            keeper_of(self.alloc, head),
        ) else {
            return self.fails();
        };
        self.aside = Some(aside);
        Ok(self.outset(keeper))
    }
}
