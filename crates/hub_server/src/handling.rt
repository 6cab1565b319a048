//! Loops for the links that come in, beside each other.
ghost use Rattle.std.specs.Prelude.{◌≡◌, ◌≤◌, ◌⊎◌, All, IfSome};
ghost use Rattle.std.specs.Thread.{IsSync};
ghost use Rattle.hub_cell.specs.Passes.{IsOf};
ghost use Rattle.grid_outside.specs.Counts.{Rose};
ghost use Rattle.hub_server.specs.Statuses.{HasRun};

use crate::accepting::Accepts;
use crate::crowd::Desk;
use crate::looping::{Post, run_loop};
use crate::passes::next_pass;
use crossbeam_channel::{Sender, bounded};
use grid_outside::Gate;
use hub_cell::{Pass, SharedHub};
use std::alloc::Global;
use std::sync::Wait;
use std::sync::atomic::AtomicU64;
use std::thread::{Threads, join};

/// The door was closed.
const CLOSED: u8 = 0;

/// The door could not be bound, or failed.
pub(crate) const DOOR_FAILED: u8 = 3;

/// Out of memory, or of threads.
pub(crate) const NO_MEMORY: u8 = 5;

/// So many links may have been accepted that no loop has taken yet: the door needn't wait for a loop after each.
const LINKS: usize = 64;

/// Accepts links until the door is closed or fails. Each waits until a loop has a place for it.
fn accept_links<R: Wait, L: Drop, A: Accepts<L>>(rt: &R, door: &mut A, links: &Sender<L>) -> u8
    ensures { HasRun (A.view door.old) (A.view door.new) result }
{
    for _ in rt.forever() {
        let link = match door.next_link() {
            Ok(Some(link)) => link,
            Ok(None) => return CLOSED,
            Err(_) => return DOOR_FAILED,
        };
        if links.send(rt, link).is_err() {
            return NO_MEMORY;
        }
    }
    unreachable!()
}

/// Ends a loan.
pub(crate) fn take_back<T>(x: &mut T)
    ensures { x.new ≡ x.old }
{}

/// A pass for one more loop, with what it works with. None: there is none left.
fn next_start<G: Drop, C: Drop>(
    hub: &SharedHub,
    passes: &mut Vec<Pass>,
    posts: &mut Vec<Post<G, C>>,
) -> Option<(Pass, Post<G, C>)>
    requires { All (IsOf hub.now) passes.old.items }
    ensures own { IfSome result (λ start. IsOf hub.now start.0) }
    ensures rest { All (IsOf hub.now) passes.new.items }
{
    let pass = next_pass(hub, passes)?;
    let post = posts.pop()?;
    Some((pass, post))
}

/// One loop, where there is something for it to work with.
fn run_one<R: Wait, G: Gate + Drop>(desk: &Desk<'_, R, G::L>, start: Option<(Pass, Post<G, G::C>)>)
    requires own { IfSome start (λ start. IsOf desk.now.hub.now start.0) }
{
    if let Some((pass, post)) = start {
        run_loop(desk, pass, post);
    }
}

/// Two loops beside each other.
fn run_two<R: Threads + Wait + Sync, G: Gate + Send + Drop>(
    desk: &Desk<'_, R, G::L>,
    one: Option<(Pass, Post<G, G::C>)>,
    two: Option<(Pass, Post<G, G::C>)>,
)
    requires one { IfSome one (λ start. IsOf desk.now.hub.now start.0) }
    requires two { IfSome two (λ start. IsOf desk.now.hub.now start.0) }
{
    join(
        desk.rt,
        move ||
            requires { IfSome one (λ start. IsOf desk.now.hub.now start.0) }
        { run_one(desk, one) },
        move ||
            requires { IfSome two (λ start. IsOf desk.now.hub.now start.0) }
        { run_one(desk, two) },
    );
}

/// Four loops beside each other.
fn run_four<R: Threads + Wait + Sync, G: Gate + Send + Drop>(
    desk: &Desk<'_, R, G::L>,
    one: Option<(Pass, Post<G, G::C>)>,
    two: Option<(Pass, Post<G, G::C>)>,
    three: Option<(Pass, Post<G, G::C>)>,
    four: Option<(Pass, Post<G, G::C>)>,
)
    requires one { IfSome one (λ start. IsOf desk.now.hub.now start.0) }
    requires two { IfSome two (λ start. IsOf desk.now.hub.now start.0) }
    requires three { IfSome three (λ start. IsOf desk.now.hub.now start.0) }
    requires four { IfSome four (λ start. IsOf desk.now.hub.now start.0) }
{
    join(
        desk.rt,
        move ||
            requires { IsSync R.row × IfSome one (λ start. IsOf desk.now.hub.now start.0)
                × IfSome two (λ start. IsOf desk.now.hub.now start.0) }
        { run_two(desk, one, two) },
        move ||
            requires { IsSync R.row × IfSome three (λ start. IsOf desk.now.hub.now start.0)
                × IfSome four (λ start. IsOf desk.now.hub.now start.0) }
        { run_two(desk, three, four) },
    );
}

/// Up to eight loops beside each other, by the last of the passes.
fn run_eight<R: Threads + Wait + Sync, G: Gate + Send + Drop>(
    desk: &Desk<'_, R, G::L>,
    mut passes: Vec<Pass>,
    mut posts: Vec<Post<G, G::C>>,
)
    requires own { All (IsOf desk.now.hub.now) passes.items }
{
    let one = next_start(desk.hub, &mut passes, &mut posts);
    let two = next_start(desk.hub, &mut passes, &mut posts);
    let three = next_start(desk.hub, &mut passes, &mut posts);
    let four = next_start(desk.hub, &mut passes, &mut posts);
    join(
        desk.rt,
        move ||
            requires { IsSync R.row × All (IsOf desk.now.hub.now) passes.items }
        { run_last_four(desk, passes, posts) },
        move ||
            requires { IsSync R.row × IfSome one (λ start. IsOf desk.now.hub.now start.0)
                × IfSome two (λ start. IsOf desk.now.hub.now start.0)
                × IfSome three (λ start. IsOf desk.now.hub.now start.0)
                × IfSome four (λ start. IsOf desk.now.hub.now start.0) }
        { run_four(desk, one, two, three, four) },
    );
}

/// Up to four loops beside each other, by the last of the passes that are left.
fn run_last_four<R: Threads + Wait + Sync, G: Gate + Send + Drop>(
    desk: &Desk<'_, R, G::L>,
    mut passes: Vec<Pass>,
    mut posts: Vec<Post<G, G::C>>,
)
    requires own { All (IsOf desk.now.hub.now) passes.items }
{
    let one = next_start(desk.hub, &mut passes, &mut posts);
    let two = next_start(desk.hub, &mut passes, &mut posts);
    let three = next_start(desk.hub, &mut passes, &mut posts);
    let four = next_start(desk.hub, &mut passes, &mut posts);
    run_four(desk, one, two, three, four);
}

/// Accepts links until the door is closed or fails. No more links come then, and the loops end.
fn accept_all<R: Wait, L: Drop, A: Accepts<L>>(rt: &R, sender: Sender<L>, door: &mut A) -> u8
    ensures { HasRun (A.view door.old) (A.view door.new) result }
{
    accept_links(rt, door, &sender)
}

/// Runs up to eight loops, and accepts links until the door is closed or fails. It ends once all loops have ended.
fn serve_at<R: Threads + Wait + Sync, G: Gate + Send + Drop, A: Accepts<G::L>>(
    desk: &Desk<'_, R, G::L>,
    passes: Vec<Pass>,
    posts: Vec<Post<G, G::C>>,
    sender: Sender<G::L>,
    door: &mut A,
) -> u8
    requires own { All (IsOf desk.now.hub.now) passes.items }
    ensures { HasRun (A.view door.old) (A.view door.new) result }
{
    let lent = &mut *door;
    let (_, (lent, status)) = join(
        desk.rt,
        move ||
            requires { IsSync R.row × All (IsOf desk.now.hub.now) passes.items }
        { run_eight(desk, passes, posts) },
        move || -> (&mut A, u8)
            ensures { (result.0.ghost_name ≡ lent.entry.ghost_name)
                × HasRun (A.view lent.entry.now) (A.view result.0.now) result.1 }
        {
            let status = accept_all(desk.rt, sender, lent);
            (lent, status)
        },
    );
    // For the proof alone: the loan of the door ends here.
    take_back(lent);
    status
}

/// Serves the links by a loop for each pass, at most eight, until the door is closed or fails.
pub(crate) fn serve_links<R: Threads + Wait + Sync, G: Gate + Send + Drop, A: Accepts<G::L>>(
    rt: &R,
    alloc: Global,
    hub: &SharedHub,
    passes: Vec<Pass>,
    posts: Vec<Post<G, G::C>>,
    door: &mut A,
) -> u8
    requires own { All (IsOf hub.now) passes.items }
    ensures { HasRun (A.view door.old) (A.view door.new) result }
{
    let Ok((sender, links)) = bounded(alloc, LINKS) else {
        return NO_MEMORY;
    };
    let desk = Desk {
        rt,
        alloc,
        hub,
        links,
        pausing: AtomicU64::new(0),
    };
    serve_at(&desk, passes, posts, sender, door)
}
