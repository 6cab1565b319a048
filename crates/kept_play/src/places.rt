//! Nodes of a play that register where no registered node has their name.
ghost use Rattle.std.specs.Prelude.{◌≡◌, ◌<◌, ◌+◌, ◌^◌, true, length, IfOk};
ghost use Rattle.grid_types.specs.Permitted.{is_well_sized};
ghost use Rattle.grid_play.specs.Crew.{AllFit, IsFit, registration_of};
ghost use Rattle.hub_core.specs.HubView.{past};
ghost use Rattle.own_hub.specs.Own.{GoesOrStops};
ghost use Rattle.kept_play.specs.Placing.{CameTo, NotesPlace, PlacedAll, place_by};

use grid_play::registration_of;
use grid_types::{Moment, NodeNo, Registration};
use hub_core::Registering;
use own_hub::OwnHub;
use play_words::PlayNode;
use std::alloc::Global;

/// Where a node has come to.
#[derive(Clone, Copy)]
pub(crate) enum Place {
    /// A node with its name is registered, and has this number.
    Number(NodeNo),
    /// None is, and there is no room for one.
    Nowhere,
    /// Out of memory.
    Lacks,
}

/// Registers a node at the moment 0, where no registered node has its name.
fn register<H: OwnHub>(hub: &mut H, registration: Registration) -> Result<Place, H::Fault>
    requires open { H.own.IsOpen hub.old }
    requires sized { is_well_sized registration ≡ true }
    ensures config { IfOk result (λ place.
        (H.own.shown hub.new).config ≡ (H.own.shown hub.old).config) }
    ensures came { IfOk result (λ place. CameTo (H.own.shown hub.old).config
        (past (H.own.shown hub.old)) registration place (past (H.own.shown hub.new))) }
    ensures goes { GoesOrStops H.own hub.old result hub.new }
{
    if !hub.has_room() {
        return Ok(Place::Lacks);
    }
    let answer = hub.register(registration, Moment(0))?;
    Ok(place_by(answer))
}

/// Where a node has come to by the answer to its registration.
fn place_by(answer: Registering) -> Place
    ensures { result ≡ place_by answer }
{
    match answer {
        Registering::Registered(number) => Place::Number(number),
        Registering::NameTaken(number) => Place::Number(number),
        Registering::NodesFull { .. } => Place::Nowhere,
        Registering::NumbersSpent => Place::Nowhere,
        Registering::Memory(_) => Place::Lacks,
    }
}

/// Node i of the play registers, where no registered node has its name.
fn place_one<H: OwnHub>(
    alloc: Global,
    hub: &mut H,
    i: NodeNo,
    node: &PlayNode,
) -> Result<Place, H::Fault>
    requires open { H.own.IsOpen hub.old }
    requires fit { IsFit node.now }
    ensures config { IfOk result (λ place.
        (H.own.shown hub.new).config ≡ (H.own.shown hub.old).config) }
    ensures came { IfOk result (λ place. CameTo (H.own.shown hub.old).config
        (past (H.own.shown hub.old)) (registration_of i node.now) place
        (past (H.own.shown hub.new))) }
    ensures goes { GoesOrStops H.own hub.old result hub.new }
{
    match registration_of(alloc, i, node) {
        Ok(registration) => register(hub, registration),
        Err(_) => Ok(Place::Lacks),
    }
}

/// Notes the number of a node. False is out of memory.
fn note(own: &mut Vec<NodeNo>, place: Place) -> bool
    ensures { NotesPlace result own.old.items place own.new.items }
{
    match place {
        Place::Number(number) => own.push(number).is_ok(),
        Place::Nowhere => true,
        Place::Lacks => false,
    }
}

/// The nodes of the play register, with the numbers from `first` on in their names, and the numbers of the registered nodes with
/// these names are noted in this order. False is out of memory.
pub(crate) fn place_all<H: OwnHub>(
    alloc: Global,
    hub: &mut H,
    own: &mut Vec<NodeNo>,
    first: NodeNo,
    played: &[PlayNode],
) -> Result<bool, H::Fault>
    requires open { H.own.IsOpen hub.old }
    requires fit { AllFit played.now }
    requires few { first + length played.now < 2 ^ 32 }
    ensures config { IfOk result (λ all.
        (H.own.shown hub.new).config ≡ (H.own.shown hub.old).config) }
    ensures placed { IfOk result (λ all. PlacedAll all (H.own.shown hub.old).config first played.now
        (past (H.own.shown hub.old)) own.old.items own.new.items (past (H.own.shown hub.new))) }
    ensures goes { GoesOrStops H.own hub.old result hub.new }
{
    match played {
        [] => Ok(true),
        [node, others @ ..] => {
            let place = place_one(alloc, hub, first, node)?;
            if !note(own, place) {
                return Ok(false);
            }
            place_all(alloc, hub, own, first + 1, others)
        }
    }
}
