//! The body of the status.
ghost use Rattle.std.specs.Prelude.{◌≡◌, IfOk};
ghost use Rattle.hub_status.specs.Status.{status_bytes, written_ready};

use crate::nodes::push_nodes;
use grid_types::{Bytes, NoMemory, View};
use std::alloc::Global;
use wd_bodies::value_body;

/// The body of the hub's status (WebDriver §8.3), with the listed nodes and their slots.
pub fn status_body(alloc: Global, view: &View) -> Result<Bytes, NoMemory>
    ensures { IfOk result (λ b. b ≡ status_bytes view.now) }
{
    let mut text = String::from_str(alloc, ready_text(view.ready))?;
    text.push_str(",\"nodes\":[")?;
    push_nodes(alloc, &mut text, view.nodes.items())?;
    text.push_str("]}")?;
    value_body(alloc, text.as_str())
}

fn ready_text(ready: bool) -> &'static str
    ensures { result.now ≡ written_ready ready }
{
    if ready {
        "{\"ready\":true,\"message\":\"grid is ready\""
    } else {
        "{\"ready\":false,\"message\":\"grid has no free slot\""
    }
}
