//! Threads that share one counter.
ghost use Rattle.std.specs.Prelude.{◌≡◌, [], length, IfSome};
ghost use Rattle.turn_cell.specs.Cells.{view_of};
ghost use Rattle.trial_threads.specs.Crew.{EachHas};

use crate::adding::{add, find_spent};
use crate::counter::Counter;
use crate::crew::many_add;
use crate::linear::count_of_one_turn;
use std::alloc::Global;
use std::sync::Wait;
use std::test::*;
use std::thread::Threads;
use turn_cell::{Pass, TurnCell};

/// Each of the eight ended passes has its hundred entries, and the pass that stays has none.
fn eight_times_a_hundred<R: Threads + Wait + Sync>(rt: &R, alloc: Global) -> Option<Pass<Counter>>
    ensures { IfSome result (λ p. (length (view_of p).ended ≡ 8) × EachHas 100 (view_of p).ended
        × ((view_of p).mine ≡ [])) }
{
    many_add(rt, alloc, 8, 100)
}

#[test]
fn eight_threads_take_a_hundred_turns_each(rt: HostRuntime) -> Result<(), Fail> {
    let pass = eight_times_a_hundred(&rt, rt.alloc()).ok_or("memory")?;
    assert_eq!(rt; pass.number(), 0);
    Ok(())
}

#[test]
fn no_ticket_from_2_to_the_62_on(rt: HostRuntime) -> Result<(), Fail> {
    let counter = Counter { count: 0, name: 1 };
    let (cell, mut pass) = TurnCell::new(rt.alloc(), counter, 1 << 62)
        .ok()
        .ok_or("memory")?;
    let spent = find_spent(&rt, &cell, &mut pass);
    assert_eq!(rt; spent.ticket, 1 << 62);
    Ok(())
}

#[test]
fn counts_numbers_and_the_value_at_the_end(rt: HostRuntime) -> Result<(), Fail> {
    let counter = Counter { count: 0, name: 1 };
    let (cell, mut pass) = TurnCell::new(rt.alloc(), counter, 5).ok().ok_or("memory")?;
    assert_eq!(rt; add(&rt, &cell, &mut pass).ok(), Some(1));
    let turn = cell.enter(&rt, &mut pass).ok().ok_or("a turn")?;
    let mut other = cell.split(turn, &mut pass).ok().ok_or("memory")?;
    // Tickets 5 and 6 were drawn, and the pass was split off in the turn of ticket 6.
    assert_eq!(rt; other.number(), 7);
    assert_eq!(rt; add(&rt, &cell, &mut other).ok(), Some(2));
    assert!(rt; cell.join(&mut pass, other));
    assert_eq!(rt; add(&rt, &cell, &mut pass).ok(), Some(3));
    let counter = cell.into_value().ok_or("the value is at home")?;
    assert_eq!(rt; counter.count, 3);
    assert_eq!(rt; count_of_one_turn(&rt, rt.alloc(), 0), Some(0));
    Ok(())
}
