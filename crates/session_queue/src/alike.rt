//! Which requests are of one kind: the same slots fit them. Calls of `queue_laws` are for the proofs alone.
ghost use Rattle.std.specs.Prelude.{◌≡◌, ◌&&◌, ℕ, List, true, nat_eq};
ghost use Rattle.std.specs.Cmp.Lexicographic.{pointwise};
ghost use Rattle.grid_types.specs.declared.entry.Entry.{Entry};
ghost use Rattle.grid_types.specs.Matching.{same_value};
ghost use Rattle.grid_types.specs.Requests.{place, is_waiting};
ghost use Rattle.request_laws.specs.Kinds.{cap_eq, choices_eq, is_alike};
ghost use Rattle.session_queue.specs.Table.{RowTells, is_like, same_tried};

use crate::laws::queue_laws;
use crate::request::Request;
use grid_types::{Cap, CapValue, Caps};

fn is_same_value(a: &CapValue, b: &CapValue) -> bool
    ensures { result ≡ same_value a.now b.now }
{
    match (a, b) {
        (CapValue::Text(a), CapValue::Text(b)) => a.as_str() == b.as_str(),
        (CapValue::Flag(a), CapValue::Flag(b)) => *a == *b,
        (CapValue::Raw(a), CapValue::Raw(b)) => a.as_str() == b.as_str(),
        _ => false,
    }
}

fn is_same_cap(a: &Cap, b: &Cap) -> bool
    ensures { result ≡ cap_eq a.now b.now }
{
    a.name.as_str() == b.name.as_str() && is_same_value(&a.value, &b.value)
}

fn are_same_caps(a: &[Cap], b: &[Cap]) -> bool
    ensures { result ≡ pointwise cap_eq a.now b.now }
{
    match a {
        [] => b.is_empty(),
        [x, xs @ ..] => match b {
            [] => false,
            [y, ys @ ..] => is_same_cap(x, y) && are_same_caps(xs, ys),
        },
    }
}

fn are_same_choices(a: &[Caps], b: &[Caps]) -> bool
    ensures { result ≡ choices_eq a.now b.now }
{
    match a {
        [] => b.is_empty(),
        [x, xs @ ..] => match b {
            [] => false,
            [y, ys @ ..] => are_same_caps(x.items(), y.items()) && are_same_choices(xs, ys),
        },
    }
}

fn same_bytes(a: &Request, b: &Request) -> bool
    ensures { result ≡ nat_eq a.now.bytes b.now.bytes }
{
    a.bytes == b.bytes
}

/// The two ask for the same, and were tried on the same nodes.
fn same_ask(a: &Request, b: &Request) -> bool
    ensures { result ≡ (choices_eq a.now.choices b.now.choices && same_tried a.now.tried
        b.now.tried) }
{
    are_same_choices(a.choices.items(), b.choices.items()) && a.tried.same_nodes(&b.tried)
}

/// The same, with a look at the lengths of the written choices first: where these differ, so do the choices.
pub(crate) fn is_like(a: &Request, b: &Request) -> bool
    ensures { result ≡ is_like a.now b.now }
{
    same_bytes(a, b) && same_ask(a, b)
}

/// Whether two waiting requests are of one kind.
pub fn is_alike(a: &Request, b: &Request) -> bool
    ensures { (H : List Entry) (q r : ℕ) → RowTells a.now H q → RowTells b.now H r →
        is_waiting (place H q) ≡ true → is_waiting (place H r) ≡ true → result ≡ is_alike H q r }
{
    queue_laws();
    is_like(a, b)
}
