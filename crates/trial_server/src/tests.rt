//! The running hub, over doors in memory.
use crate::held::{Role, Shared};
use crate::held_gate::HeldDoor;
use grid_outside::Door;
use grid_types::Text;
use hub_server::hub_main;
use std::alloc::Global;
use std::sync::Wait;
use std::sync::atomic::Ordering;
use std::thread::Threads;

// Borrows the list, so that no early return drops it.
fn put_all(alloc: Global, list: &mut Vec<Text>, words: &[&str]) -> Option<()> {
    for word in words {
        list.push(Text::of(alloc, *word).ok()?).ok()?;
    }
    Some(())
}

/// The words as texts. None is out of memory, as everywhere here.
pub(crate) fn words(alloc: Global, list: &[&str]) -> Option<Vec<Text>> {
    let mut words = Vec::new(alloc);
    put_all(alloc, &mut words, list)?;
    Some(words)
}

/// The status over any door, of which a trial asks no clause.
pub(crate) fn status_over<R: Threads + Wait + Sync, D: Door>(
    rt: &R,
    alloc: Global,
    words: &[Text],
    door: &mut D,
) -> u8 {
    hub_main(rt, alloc, words, door)
}

/// Whether a hub of these words serves the links of these until its door is closed.
fn serves<R: Threads + Wait + Sync>(
    rt: &R,
    runtime: HostRuntime,
    shared: &Shared,
    said: &[&str],
    roles: &'static [Role],
) -> bool {
    let alloc = runtime.alloc();
    match words(alloc, said) {
        Some(words) => {
            let mut door = HeldDoor::new(runtime, shared, roles);
            status_over(rt, alloc, words.as_slice(), &mut door) == 0
        }
        None => false,
    }
}

fn have_started(shared: &Shared) -> bool {
    shared.created.load(Ordering::SeqCst) == 2
        && shared.first_starts.load(Ordering::SeqCst) == 1
        && shared.second_starts.load(Ordering::SeqCst) == 1
}

/// Two sessions are started by workers or connections, each only once both were asked for.
#[test]
fn a_hub_starts_sessions_beside_each_other(rt: HostRuntime) {
    let shared = Shared::new();
    let said = &["--workers", "2", "--handlers", "3"];
    assert!(rt;
        serves(
            &rt,
            rt,
            &shared,
            said,
            &[Role::Client, Role::Client, Role::Node]
        )
    );
    assert!(rt; have_started(&shared));
}

/// The last status is one without the node, which only the ticker lets go.
#[test]
fn a_silent_node_is_let_go(rt: HostRuntime) {
    let shared = Shared::new();
    let said = &["--workers", "0", "--handlers", "1"];
    assert!(rt; serves(&rt, rt, &shared, said, &[Role::Asker]));
    let taken = shared.registered.load(Ordering::SeqCst);
    assert!(rt; taken > 1 && taken < 10_000);
}
