//! What the definitions of a start say. The functions do nothing: their contracts are the laws.
ghost use Rattle.std.specs.Prelude.{◌≡◌, ℕ, ◌≤◌, List};
ghost use Rattle.node_client.specs.Replies.{Said, Says};
ghost use Rattle.node_client.specs.declared.carry.Carry.{Carry};
ghost use Rattle.node_client.specs.Carrying.{work};
ghost use Rattle.node_client.specs.Spending.{StartsSpendAll};
ghost use Rattle.node_client.specs.StandLaws.{StandLaws};

use json_spans::{a_text_is_read_one_way, a_text_is_refused_one_way};

/// A reply says one thing, however it is read.
pub fn replies_say_one_thing()
    ensures { (status : ℕ) (body : List ℕ) (s t : Said) → Says status body s → Says status body t →
        s ≡ t }
{
    // Laws of the text below, which do nothing either.
    a_text_is_read_one_way();
    a_text_is_refused_one_way();
}

/// A start spends its reservation, and the closing where it gets one.
pub fn starts_spend_all()
    ensures { StartsSpendAll }
{}

/// What a start waits for, and the call that may be taken of it, are those of its want; whatever
/// goes on from there completes it; it is given up for a cause of its own only; and it holds one
/// token at most.
pub fn starts_stand_by_their_wants()
    ensures { StandLaws }
{}

/// A start is over after four answers at most, since each answer lowers its work.
pub fn starts_are_short()
    ensures { (carry : Carry) → work carry ≤ 4 }
{}
