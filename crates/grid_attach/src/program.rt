//! The program over a link to the nodes and a clock.
ghost use Rattle.std.specs.Prelude.{◌≡◌, ◌≢◌, Option, ℕ, IfErr, OnOk};
ghost use Rattle.grid_attach.specs.Looks.{Attached};
ghost use Rattle.server_words.specs.AttachOptions.{FitsAttach, HasCause, attach_said};
ghost use Rattle.server_words.specs.declared.attach.AttachFault.TheVariants as fault;

use crate::attaching::attach;
use grid_outside::{Clock, NodeLink};
use grid_types::Text;
use server_words::{AttachFault, attach_words};
use std::alloc::Global;

/// Puts the driver of the words behind the hub of the words, by so many looks, or until the hub refuses a beat where the
/// words say that it ends then. Err is why the words don't fit, in which nothing was asked, or out of memory.
pub fn attach_main<N: NodeLink, C: Clock>(
    alloc: Global,
    words: &[Text],
    nodes: &mut N,
    clock: &mut C,
    looks: u64,
) -> Result<(), AttachFault>
    ensures attached { OnOk result ((now : Option ℕ)
        × Attached N.gives C.gives C.view (attach_said words.now) looks nodes.old clock.old now nodes.new clock.new) }
    ensures fits { OnOk result (FitsAttach words.now) }
    ensures why { IfErr result (λ f. HasCause f words.now) }
    ensures refused { IfErr result (λ f. f ≢ fault.Memory → ¬ (FitsAttach words.now)) }
    ensures unasked { IfErr result (λ f. f ≢ fault.Memory → nodes.new ≡ nodes.old) }
{
    let said = attach_words(alloc, words)?;
    attach(alloc, nodes, clock, &said, looks)?;
    Ok(())
}
