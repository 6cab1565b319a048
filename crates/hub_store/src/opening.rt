//! A hub by what is read of a store.
ghost use Rattle.std.specs.Prelude.{◌≡◌, ◌⊎◌, ◌+◌, ◌≤◌, [], length, Some, IfOk, IfErr, IfSome};
ghost use Rattle.grid_types.specs.Config.{IsValid};
ghost use Rattle.grid_types.specs.History.{next_node, next_request};
ghost use Rattle.grid_journal.specs.HeadReads.{HeadRead};
ghost use Rattle.grid_journal.specs.Spelled.{head_bytes};
ghost use Rattle.grid_journal.specs.declared.head.HeadStep.TheVariants as step;
ghost use Rattle.journal_keeper.specs.declared.keeping.Keeping.TheVariants as keeping;
ghost use Rattle.journal_keeper.specs.Keepings.{kept_by};
ghost use Rattle.grid_ledger.specs.LedgerStands.{LedgerTells};
ghost use Rattle.journal_verdicts.specs.Verdicts.{LeavesNone, Says};
ghost use Rattle.hub_opening.specs.Handed.{Continues};
ghost use Rattle.hub_cell.specs.Passes.{BeginsAs, IsOf, config_of, core_of, first_of, keeping_of, spares_of};
ghost use Rattle.hub_store.specs.declared.fault.StoreFault.TheVariants as fault;
ghost use Rattle.hub_store.specs.Opens.{BeginsAnew, BeginsBehind, GoesOn, NotBegunBy, Opens, WhyClosed};
ghost use Rattle.hub_store.specs.Stores.{ByJournal, Found, HasOptions, IsOver, IsToGoOn, is_cut};

use crate::fault::{StoreFault, Unopened};
use crate::options::other_option;
use crate::over::is_to_go_on;
use crate::store::{Outset, Store};
use grid_journal::write_head;
use grid_ledger::GridLedger;
use grid_opening::{Ender, Unsettled};
use grid_replay::Replay;
use grid_types::{HubConfig, Moment};
use hub_cell::{Pass, SharedHub};
use hub_opening::settle_and_go_on;
use journal_keeper::Keeping;
use journal_verdicts::{CheckFault, Journal, ReadIn, Verdict, read_in};
use std::alloc::Global;
use std::sync::Wait;

/// Nothing keeps the journal yet.
fn closed(fault: StoreFault) -> Unopened
    ensures { (result.fault ≡ fault) × (result.keeping ≡ keeping.Nothing) }
{
    Unopened {
        fault,
        keeping: Keeping::Nothing,
    }
}

/// Why an opening gave no hub.
fn unsettled(unsettled: Unsettled<Keeping>) -> Unopened
    ensures { (result.fault ≡ fault.Opening unsettled.fault)
        × (result.keeping ≡ unsettled.keeper) }
{
    Unopened {
        fault: StoreFault::Opening(unsettled.fault),
        keeping: unsettled.keeper,
    }
}

/// A hub that begins a journal, which has the head alone.
fn begin_there<R: Wait, E: Ender<Replay>>(
    rt: &R,
    alloc: Global,
    config: HubConfig,
    outset: Outset,
    most_caller: u64,
    ender: &mut E,
    passes: u32,
) -> Result<(SharedHub, Pass), Unopened>
    requires valid { IsValid config }
    requires kept { IfSome (kept_by outset.keeping) (λ bytes. bytes ≡ head_bytes config) }
    requires passes { (1 ≤ passes) × (passes ≤ 256) }
    ensures own { IfOk result (λ r. IsOf r.0 r.1) }
    ensures pass { IfOk result (λ r. BeginsAs (first_of r.0) r.1
        × (spares_of r.1 + 1 ≡ passes)) }
    ensures config { IfOk result (λ r. config_of r.0 ≡ config) }
    ensures begins { IfOk result (λ r.
        Continues config (core_of r.0) (keeping_of r.0) (first_of r.0) []) }
    ensures next { IfOk result (λ r. first_of r.0 ≡ most_caller + 1) }
    ensures reason { IfErr result (λ e.
        NotBegunBy most_caller outset.at.0 e.keeping e.fault) }
{
    let ledger = GridLedger::new(alloc, config);
    match settle_and_go_on(
        rt,
        alloc,
        ledger,
        Replay::new(alloc),
        outset.keeping,
        most_caller,
        ender,
        outset.at,
        passes,
    ) {
        Ok(begun) => Ok(begun),
        Err(fault) => Err(unsettled(fault)),
    }
}

/// The hub begins a journal in a store that has none.
fn begin_anew<R: Wait, S: Store, E: Ender<Replay>>(
    rt: &R,
    alloc: Global,
    config: HubConfig,
    store: &mut S,
    ender: &mut E,
    passes: u32,
) -> Result<(SharedHub, Pass), Unopened>
    requires valid { IsValid config }
    requires cut { IfSome (S.Source.view store.old).given (λ bytes. HeadRead bytes step.More) }
    requires passes { (1 ≤ passes) × (passes ≤ 256) }
    ensures own { IfOk result (λ r. IsOf r.0 r.1) }
    ensures pass { IfOk result (λ r. BeginsAs (first_of r.0) r.1
        × (spares_of r.1 + 1 ≡ passes)) }
    ensures opens { IfOk result (λ r. BeginsAnew config (S.Source.view store.old).given
        (config_of r.0) (core_of r.0) (keeping_of r.0) (first_of r.0)) }
    ensures given { (S.Source.view store.new).given ≡ (S.Source.view store.old).given }
    ensures reason { IfErr result (λ e. WhyClosed config (S.Source.view store.old).given
        (S.Source.view store.old).faults (S.Source.view store.new).faults
        (S.moment store.new) e.keeping e.fault) }
{
    let Ok(head) = write_head(alloc, &config) else {
        return Err(closed(StoreFault::Memory));
    };
    match store.keep_anew(rt, &config, head.as_bytes()) {
        Ok(outset) => begin_there(rt, alloc, config, outset, 0, ender, passes),
        Err(_) => Err(closed(StoreFault::Failed)),
    }
}

/// The journal is put aside, and a new one begins with the next numbers.
fn begin_behind<R: Wait, S: Store, E: Ender<Replay>>(
    rt: &R,
    alloc: Global,
    told: HubConfig,
    next: HubConfig,
    journal: Journal<Replay>,
    store: &mut S,
    ender: &mut E,
    passes: u32,
) -> Result<(SharedHub, Pass), Unopened>
    requires valid { IsValid next }
    requires found { Found (S.Source.view store.old).given journal }
    requires some { 1 ≤ journal.entries }
    requires options { HasOptions told next }
    requires nodes { LedgerTells journal.ledger
        (λ H. next.first_node ≡ next_node journal.ledger.config H) }
    requires requests { LedgerTells journal.ledger
        (λ H. next.first_request ≡ next_request journal.ledger.config H) }
    requires over { LedgerTells journal.ledger IsOver }
    requires passes { (1 ≤ passes) × (passes ≤ 256) }
    ensures own { IfOk result (λ r. IsOf r.0 r.1) }
    ensures pass { IfOk result (λ r. BeginsAs (first_of r.0) r.1
        × (spares_of r.1 + 1 ≡ passes)) }
    ensures opens { IfOk result (λ r. BeginsBehind told (S.Source.view store.old).given
        (S.aside store.new) (config_of r.0) (core_of r.0) (keeping_of r.0) (first_of r.0)) }
    ensures given { (S.Source.view store.new).given ≡ (S.Source.view store.old).given }
    ensures reason { IfErr result (λ e. WhyClosed told (S.Source.view store.old).given
        (S.Source.view store.old).faults (S.Source.view store.new).faults
        (S.moment store.new) e.keeping e.fault) }
{
    let Ok(head) = write_head(alloc, &next) else {
        return Err(closed(StoreFault::Memory));
    };
    let most_caller = journal.listener.most_caller();
    match store.keep_aside(rt, &next, head.as_bytes()) {
        Ok(outset) => begin_there(rt, alloc, next, outset, most_caller, ender, passes),
        Err(_) => Err(closed(StoreFault::Failed)),
    }
}

/// The hub that goes on from the journal, whose options are those that it was told.
fn go_on<R: Wait, S: Store, E: Ender<Replay>>(
    rt: &R,
    alloc: Global,
    told: HubConfig,
    journal: Journal<Replay>,
    store: &mut S,
    ender: &mut E,
    passes: u32,
) -> Result<(SharedHub, Pass), Unopened>
    requires found { Found (S.Source.view store.old).given journal }
    requires unfinished { IsToGoOn journal }
    requires options { HasOptions told journal.ledger.config }
    requires passes { (1 ≤ passes) × (passes ≤ 256) }
    ensures own { IfOk result (λ r. IsOf r.0 r.1) }
    ensures pass { IfOk result (λ r. BeginsAs (first_of r.0) r.1
        × (spares_of r.1 + 1 ≡ passes)) }
    ensures opens { IfOk result (λ r. GoesOn told (S.Source.view store.old).given
        (config_of r.0) (core_of r.0) (keeping_of r.0) (first_of r.0)) }
    ensures given { (S.Source.view store.new).given ≡ (S.Source.view store.old).given }
    ensures reason { IfErr result (λ e. WhyClosed told (S.Source.view store.old).given
        (S.Source.view store.old).faults (S.Source.view store.new).faults
        (S.moment store.new) e.keeping e.fault) }
{
    let Journal {
        ledger,
        listener,
        whole,
        ..
    } = journal;
    let Ok(outset) = store.keep_front(rt, &ledger.config(), ledger.clock(), whole) else {
        return Err(closed(StoreFault::Failed));
    };
    let most_caller = listener.most_caller();
    match settle_and_go_on(
        rt,
        alloc,
        ledger,
        listener,
        outset.keeping,
        most_caller,
        ender,
        outset.at,
        passes,
    ) {
        Ok(begun) => Ok(begun),
        Err(fault) => Err(unsettled(fault)),
    }
}

/// The hub that goes on from the journal, where it is of one that was set up so.
fn go_on_as<R: Wait, S: Store, E: Ender<Replay>>(
    rt: &R,
    alloc: Global,
    told: HubConfig,
    journal: Journal<Replay>,
    store: &mut S,
    ender: &mut E,
    passes: u32,
) -> Result<(SharedHub, Pass), Unopened>
    requires found { Found (S.Source.view store.old).given journal }
    requires unfinished { IsToGoOn journal }
    requires passes { (1 ≤ passes) × (passes ≤ 256) }
    ensures own { IfOk result (λ r. IsOf r.0 r.1) }
    ensures pass { IfOk result (λ r. BeginsAs (first_of r.0) r.1
        × (spares_of r.1 + 1 ≡ passes)) }
    ensures opens { IfOk result (λ r. GoesOn told (S.Source.view store.old).given
        (config_of r.0) (core_of r.0) (keeping_of r.0) (first_of r.0)) }
    ensures given { (S.Source.view store.new).given ≡ (S.Source.view store.old).given }
    ensures reason { IfErr result (λ e. WhyClosed told (S.Source.view store.old).given
        (S.Source.view store.old).faults (S.Source.view store.new).faults
        (S.moment store.new) e.keeping e.fault) }
{
    let kept = journal.ledger.config();
    match other_option(&told, &kept) {
        Some(option) => Err(closed(StoreFault::Option(option))),
        None => go_on(rt, alloc, told, journal, store, ender, passes),
    }
}

/// The hub by a journal that was read: it goes on from it, or begins a new one where nothing is left of the old.
fn by_journal<R: Wait, S: Store, E: Ender<Replay>>(
    rt: &R,
    alloc: Global,
    told: HubConfig,
    journal: Journal<Replay>,
    store: &mut S,
    ender: &mut E,
    passes: u32,
) -> Result<(SharedHub, Pass), Unopened>
    requires valid { IsValid told }
    requires found { Found (S.Source.view store.old).given journal }
    requires passes { (1 ≤ passes) × (passes ≤ 256) }
    ensures own { IfOk result (λ r. IsOf r.0 r.1) }
    ensures pass { IfOk result (λ r. BeginsAs (first_of r.0) r.1
        × (spares_of r.1 + 1 ≡ passes)) }
    ensures opens { IfOk result (λ r. Opens told (S.Source.view store.old).given
        (S.aside store.new) (config_of r.0) (core_of r.0) (keeping_of r.0) (first_of r.0)) }
    ensures given { (S.Source.view store.new).given ≡ (S.Source.view store.old).given }
    ensures reason { IfErr result (λ e. WhyClosed told (S.Source.view store.old).given
        (S.Source.view store.old).faults (S.Source.view store.new).faults
        (S.moment store.new) e.keeping e.fault) }
{
    let next = HubConfig {
        first_node: journal.ledger.next_node(),
        first_request: journal.ledger.next_request(),
        ..told
    };
    if is_to_go_on(&journal) {
        return go_on_as(rt, alloc, told, journal, store, ender, passes);
    }
    begin_behind(rt, alloc, told, next, journal, store, ender, passes)
}

/// Whether the bytes end inside a head or an entry.
fn is_cut(verdict: Verdict) -> bool
    ensures { result ≡ is_cut verdict }
{
    matches!(verdict, Verdict::Cut { .. })
}

/// The hub by a verdict that leaves no journal: it begins one where no head is whole yet.
fn by_verdict<R: Wait, S: Store, E: Ender<Replay>>(
    rt: &R,
    alloc: Global,
    told: HubConfig,
    verdict: Verdict,
    store: &mut S,
    ender: &mut E,
    passes: u32,
) -> Result<(SharedHub, Pass), Unopened>
    requires valid { IsValid told }
    requires says { IfSome (S.Source.view store.old).given (Says verdict) }
    requires none { LeavesNone verdict }
    requires passes { (1 ≤ passes) × (passes ≤ 256) }
    ensures own { IfOk result (λ r. IsOf r.0 r.1) }
    ensures pass { IfOk result (λ r. BeginsAs (first_of r.0) r.1
        × (spares_of r.1 + 1 ≡ passes)) }
    ensures opens { IfOk result (λ r. BeginsAnew told (S.Source.view store.old).given
        (config_of r.0) (core_of r.0) (keeping_of r.0) (first_of r.0)) }
    ensures given { (S.Source.view store.new).given ≡ (S.Source.view store.old).given }
    ensures reason { IfErr result (λ e. WhyClosed told (S.Source.view store.old).given
        (S.Source.view store.old).faults (S.Source.view store.new).faults
        (S.moment store.new) e.keeping e.fault) }
{
    if is_cut(verdict) {
        return begin_anew(rt, alloc, told, store, ender, passes);
    }
    Err(closed(StoreFault::Verdict(verdict)))
}

/// The hub by what was read.
fn by_found<R: Wait, S: Store, E: Ender<Replay>>(
    rt: &R,
    alloc: Global,
    told: HubConfig,
    found: ReadIn<Replay>,
    store: &mut S,
    ender: &mut E,
    passes: u32,
) -> Result<(SharedHub, Pass), Unopened>
    requires valid { IsValid told }
    requires says { IfSome (S.Source.view store.old).given (Says found.verdict) }
    requires found { ByJournal (S.Source.view store.old).given found.verdict found.journal }
    requires passes { (1 ≤ passes) × (passes ≤ 256) }
    ensures own { IfOk result (λ r. IsOf r.0 r.1) }
    ensures pass { IfOk result (λ r. BeginsAs (first_of r.0) r.1
        × (spares_of r.1 + 1 ≡ passes)) }
    ensures opens { IfOk result (λ r. Opens told (S.Source.view store.old).given
        (S.aside store.new) (config_of r.0) (core_of r.0) (keeping_of r.0) (first_of r.0)) }
    ensures given { (S.Source.view store.new).given ≡ (S.Source.view store.old).given }
    ensures reason { IfErr result (λ e. WhyClosed told (S.Source.view store.old).given
        (S.Source.view store.old).faults (S.Source.view store.new).faults
        (S.moment store.new) e.keeping e.fault) }
{
    let ReadIn { verdict, journal } = found;
    match journal {
        Some(journal) => by_journal(rt, alloc, told, journal, store, ender, passes),
        None => by_verdict(rt, alloc, told, verdict, store, ender, passes),
    }
}

/// The hub by what the store has, for so many passes, and its first pass: it goes on from the whole entries that are found there; or these
/// are put aside, and it begins with the next numbers, where nothing goes on in them; or it begins where no head is whole yet. What
/// is behind the last whole entry is cut off.
///
/// # Errors
/// As [`StoreFault`] says. Where the verdict leaves nothing or the options differ, the store is read and not told to keep anything.
pub fn open_store<R: Wait, S: Store, E: Ender<Replay>>(
    rt: &R,
    alloc: Global,
    config: HubConfig,
    store: &mut S,
    ender: &mut E,
    passes: u32,
) -> Result<(SharedHub, Pass), Unopened>
    requires valid { IsValid config }
    requires unread { IfSome (S.Source.view store.old).given (λ told. told ≡ []) }
    requires passes { (1 ≤ passes) × (passes ≤ 256) }
    ensures own { IfOk result (λ r. IsOf r.0 r.1) }
    ensures pass { IfOk result (λ r. BeginsAs (first_of r.0) r.1
        × (spares_of r.1 + 1 ≡ passes)) }
    ensures opens { IfOk result (λ r. Opens config (S.Source.view store.new).given
        (S.aside store.new) (config_of r.0) (core_of r.0) (keeping_of r.0) (first_of r.0)) }
    ensures reason { IfErr result (λ e. WhyClosed config (S.Source.view store.new).given
        (S.Source.view store.old).faults (S.Source.view store.new).faults
        (S.moment store.new) e.keeping e.fault) }
{
    match read_in(alloc, store, Replay::new(alloc)) {
        Ok(found) => by_found(rt, alloc, config, found, store, ender, passes),
        Err(CheckFault::Read) => Err(closed(StoreFault::Failed)),
        Err(CheckFault::Memory) => Err(closed(StoreFault::Memory)),
    }
}
