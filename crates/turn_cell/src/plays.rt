//! The rule that holds between any two steps, and what each step tells the seat that makes it.
use crate::stands::{Made, Noted, Stands};
use crate::views::{Doing, Start};
use atomic_table::{Join, Play, Seat, Split, TableRule};
use std::marker::{Brand, PhantomData};

/// Word 0 is TICKET, the next ticket to draw, and word 1 is SERVING, the ticket whose turn it is.
/// The slot has the value, and None while a turn is out.
pub struct Turns;

impl<V: Stands> TableRule<Option<V>, Doing<V>, Start<V>> for Turns {
    ghost use Rattle.turn_cell.specs.Rule.{Kept, starting};

    ghost holds = { λ key. Kept V.stands V.mark key.origin.value key.first };

    ghost first = { λ key. starting key.origin.value key.first key.number };
}

/// What a pass acts by on the two words and the slot.
pub type Place<V> = Seat<Option<V>, Doing<V>>;

/// A load of TICKET. It alone raises a count of spent looks.
pub(crate) struct LookAtTicket;

impl<V> Play<Option<V>, Doing<V>> for LookAtTicket {
    ghost use Rattle.turn_cell.specs.Steps.{looked};

    ghost then = { looked };
}

/// An exchange of TICKET, from the number that was looked at to one more.
pub(crate) struct Draw;

impl<V> Play<Option<V>, Doing<V>> for Draw {
    ghost use Rattle.turn_cell.specs.Steps.{drawn};

    ghost then = { drawn };
}

/// A load of SERVING. Where it finds the seat's ticket, the seat takes the slot and has seen the whole history.
pub(crate) struct LookAtServing;

impl<V: Stands> Play<Option<V>, Doing<V>> for LookAtServing {
    ghost use Rattle.turn_cell.specs.Steps.{served};

    ghost then = { served V.stands V.mark };
}

/// The load of SERVING at which the slot comes home and the turn's entries are noted.
pub(crate) struct Note<E> {
    entries: PhantomData<E>,
}

impl<V, E: Made> Play<Option<V>, Doing<V>> for Note<E> {
    ghost use Rattle.turn_cell.specs.Steps.{noted};

    ghost then = { noted E.entries };
}

/// A load of SERVING at which a session is noted as found.
pub(crate) struct Remark<L> {
    look: PhantomData<L>,
}

impl<V, L: Noted> Play<Option<V>, Doing<V>> for Remark<L> {
    ghost use Rattle.turn_cell.specs.Steps.{remarked};

    ghost then = { remarked L.look };
}

/// SERVING goes up by 1: the entries that were noted join the history.
pub(crate) struct Raise;

impl<V> Play<Option<V>, Doing<V>> for Raise {
    ghost use Rattle.turn_cell.specs.Steps.{raised};

    ghost then = { raised };
}

/// A new pass is split off in a turn.
pub(crate) struct Part;

impl<V> Split<Doing<V>> for Part {
    ghost use Rattle.turn_cell.specs.Steps.{split_off, newborn};

    ghost left = { split_off };

    ghost right = { newborn };
}

/// One pass takes another in.
pub(crate) struct Glue;

impl<V> Join<Doing<V>> for Glue {
    ghost use Rattle.turn_cell.specs.Steps.{joined, gone};

    ghost both = { joined };

    ghost spent = { gone };
}

/// A note of what a pass has seen is split off. The pass stays as it is.
pub(crate) struct Tell;

impl<V> Split<Doing<V>> for Tell {
    ghost use Rattle.turn_cell.specs.Steps.{telling};

    ghost left = { λ d. d };

    ghost right = { telling };
}

/// One pass takes in a note of what another has seen.
pub(crate) struct Hear;

impl<V> Join<Doing<V>> for Hear {
    ghost use Rattle.turn_cell.specs.Steps.{heard, gone};

    ghost both = { heard };

    ghost spent = { gone };
}

/// A load of SERVING after a join or a note, which tells that both lists begin what was kept.
pub(crate) struct Settle;

impl<V> Play<Option<V>, Doing<V>> for Settle {
    ghost use Rattle.turn_cell.specs.Steps.{settled};

    ghost then = { settled };
}

/// A turn that made no entries.
pub(crate) struct Nothing;

impl Made for Nothing {
    ghost use Rattle.std.specs.Prelude.{[]};

    ghost entries = { [] };
}

// For a call whose caller picks the entries in its proof.
impl Made for Brand {
    ghost use Rattle.std.specs.Prelude.{[]};

    ghost entries = { [] };
}

// For a look whose caller picks it in its proof.
impl Noted for Brand {
    ghost use Rattle.std.specs.Prelude.{[]};
    ghost use Rattle.grid_types.specs.declared.entry.Found.{Found};

    ghost look = { record { session = []; found = Found.NoSession } };
}
