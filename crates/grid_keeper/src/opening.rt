//! A hub that is made again from the rows of a keeper.
ghost use Rattle.std.specs.Prelude.{◌≡◌, ◌≤◌, IfOk, IfErr, IsErrOf, OnOk};
ghost use Rattle.grid_types.specs.Config.{IsValid};
ghost use Rattle.grid_journal.specs.declared.rows.Row.TheVariants as row;
ghost use Rattle.grid_outside.specs.Counts.{Rose};
ghost use Rattle.grid_journal.specs.RowSpelled.{RowFits};
ghost use Rattle.hub_core.specs.HubView.{past};
ghost use Rattle.grid_keeper.specs.Holds.{HoldsAll};
ghost use Rattle.grid_keeper.specs.Keeping.{IsOpen};
ghost use Rattle.grid_keeper.specs.Opening.{BadAny, BadSo, MadeAgain, MadeAll, TookRow, WentOn};
ghost use Rattle.grid_keeper.specs.declared.opening.OpenFault.TheVariants as fault;

use crate::again;
use crate::kept_hub::KeptHub;
use crate::left::Left;
use crate::sizes::is_start_failure;
use grid_journal::{Row, read_row};
use grid_types::{FailWhy, HubConfig, Moment, NoMemory, ReqNo};
use hub_core::LocalHub;
use row_keeper::{KeepFault, Keeper};
use std::alloc::Global;

/// Why a hub was not opened.
#[derive(Clone, Copy, Debug, PartialEq, Eq)]
pub enum OpenFault {
    /// The keeper failed.
    Read,
    /// The row with this number, from 0, is no row, or its call may not be made there.
    BadRow { index: u64 },
    Memory,
}

/// A failed start, made again. False also where the cause is none of a start.
fn fail_again(
    hub: &mut LocalHub,
    left: &mut Left,
    request: ReqNo,
    why: FailWhy,
    at: Moment,
) -> Result<bool, NoMemory>
    requires fits { RowFits (row.Fail request why at) }
    requires holds { HoldsAll (past hub.old) left.old }
    ensures { IfOk result (λ went. WentOn hub.old.config (past hub.old)
        (row.Fail request why at) went hub.new left.new) }
{
    if !is_start_failure(&why) {
        return Ok(false);
    }
    again::fail(hub, left, request, why, at)
}

/// Makes the row again. False: it can't be.
fn make_again(hub: &mut LocalHub, left: &mut Left, row: Row) -> Result<bool, NoMemory>
    requires fits { RowFits row }
    requires holds { HoldsAll (past hub.old) left.old }
    ensures { IfOk result (λ went. WentOn hub.old.config (past hub.old)
        row went hub.new left.new) }
{
    match row {
        Row::Register { registration, at } => again::register(hub, left, registration, at),
        Row::Beat { node, at } => again::beat(hub, left, node, at),
        Row::Drain { node, at } => again::drain(hub, left, node, at),
        Row::Remove { node, at } => again::remove(hub, left, node, at),
        Row::Enqueue { choices, at } => again::enqueue(hub, left, choices, at),
        Row::Poll { request, at } => again::poll(hub, left, request, at),
        Row::Dispatch { at } => again::dispatch(hub, left, at),
        Row::Bind {
            request,
            session,
            caps,
            at,
        } => again::bind(hub, left, request, session, caps, at),
        Row::Fail { request, why, at } => fail_again(hub, left, request, why, at),
        Row::Touch {
            session,
            binding,
            at,
        } => again::touch(hub, left, session, binding, at),
        Row::End {
            session,
            binding,
            at,
        } => again::end(hub, left, session, binding, at),
        Row::Freed { slot } => again::freed(hub, left, slot),
        Row::Sweep { at } => again::sweep(hub, left, at),
        Row::Expire { at } => again::expire(hub, left, at),
        Row::Clear { at } => again::clear(hub, left, at),
    }
}

/// Makes the row with this number again. False: there is none.
fn take_row<K: Keeper>(
    alloc: Global,
    keeper: &mut K,
    hub: &mut LocalHub,
    left: &mut Left,
    index: u64,
) -> Result<bool, OpenFault>
    requires made { MadeAgain hub.old.config (K.disk keeper.old) index hub.old left.old }
    ensures disk { K.disk keeper.new ≡ K.disk keeper.old }
    ensures took { IfOk result (λ more. TookRow hub.old.config (K.disk keeper.old) index more hub.new left.new) }
    ensures bad { IfErr result (λ e. BadSo hub.old.config (K.disk keeper.old) index e) }
    ensures later { K.faults keeper.old ≤ K.faults keeper.new }
    ensures read { IsErrOf result fault.Read → Rose (K.faults keeper.old) (K.faults keeper.new) }
{
    let bytes = match keeper.row(alloc, index) {
        Ok(Some(bytes)) => bytes,
        Ok(None) => return Ok(false),
        Err(KeepFault::Failed) => return Err(OpenFault::Read),
        Err(KeepFault::Memory) => return Err(OpenFault::Memory),
    };
    let Ok(read) = read_row(alloc, bytes.as_bytes()) else {
        return Err(OpenFault::Memory);
    };
    let Some(row) = read else {
        return Err(OpenFault::BadRow { index });
    };
    let Ok(went) = make_again(hub, left, row) else {
        return Err(OpenFault::Memory);
    };
    if !went {
        return Err(OpenFault::BadRow { index });
    }
    Ok(true)
}

/// Makes all rows again.
fn make_all<K: Keeper>(
    alloc: Global,
    keeper: &mut K,
    hub: &mut LocalHub,
    left: &mut Left,
) -> Result<(), OpenFault>
    requires made { MadeAgain hub.old.config (K.disk keeper.old) 0 hub.old left.old }
    ensures disk { K.disk keeper.new ≡ K.disk keeper.old }
    ensures made { OnOk result (MadeAll hub.old.config (K.disk keeper.old) hub.new left.new) }
    ensures bad { IfErr result (λ e. BadAny hub.old.config (K.disk keeper.old) e) }
    ensures later { K.faults keeper.old ≤ K.faults keeper.new }
    ensures read { IsErrOf result fault.Read → Rose (K.faults keeper.old) (K.faults keeper.new) }
{
    for index in 0..u64::MAX {
        if !take_row(alloc, keeper, hub, left, index)? {
            return Ok(());
        }
    }
    Err(OpenFault::Memory)
}

impl<K: Keeper> KeptHub<K> {
    /// The hub that the keeper's rows make, with the tokens that are open after them. An Err hands the keeper back.
    pub fn open(
        alloc: Global,
        config: HubConfig,
        keeper: K,
    ) -> Result<(KeptHub<K>, Left), (OpenFault, K)>
        requires { IsValid config }
        ensures open { IfOk result (λ made. IsOpen K.disk made.0) }
        ensures config { IfOk result (λ made. made.0.hub.config ≡ config) }
        ensures tokens { IfOk result (λ made. HoldsAll (past made.0.hub) made.1) }
        ensures rows { IfOk result (λ made. K.disk made.0.keeper ≡ K.disk keeper) }
        ensures bad { IfErr result (λ e. BadAny config (K.disk keeper) e.0) }
        ensures back { IfErr result (λ e. K.disk e.1 ≡ K.disk keeper) }
        ensures read { IfErr result (λ e. e.0 ≡ fault.Read → Rose (K.faults keeper) (K.faults e.1)) }
        ensures later { IfOk result (λ made. K.faults keeper ≤ K.faults made.0.keeper) }
    {
        let mut kept = keeper;
        let Ok(mut hub) = LocalHub::new(alloc, config) else {
            return Err((OpenFault::Memory, kept));
        };
        let mut left = Left::new(alloc);
        match make_all(alloc, &mut kept, &mut hub, &mut left) {
            Ok(()) => Ok((KeptHub::over(alloc, hub, kept), left)),
            Err(fault) => Err((fault, kept)),
        }
    }
}
