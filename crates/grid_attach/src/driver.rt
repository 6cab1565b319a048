//! Whether the driver is there.
ghost use Rattle.std.specs.Prelude.{◌≡◌};
ghost use Rattle.grid_attach.specs.Looks.{ask_for_status, ReadyIs};

use grid_outside::{ExchangeFault, NodeLink, NodeRequest, Reply};
use grid_types::{NoMemory, NodeAddress};
use node_signs::SERVED;
use std::alloc::Global;
use wd_bodies::STATUS;

/// Whether the driver answered its status with 200. Err: out of memory, in which it was not asked.
pub(crate) fn is_ready(seen: &Result<Reply, ExchangeFault>) -> Result<bool, NoMemory>
    ensures { ReadyIs seen.now result }
{
    match seen {
        Ok(Reply::Http(reply)) => Ok(reply.status == SERVED),
        Ok(Reply::NotHttp(_)) => Ok(false),
        Err(ExchangeFault::Unreachable) => Ok(false),
        Err(ExchangeFault::Memory) => Err(NoMemory),
    }
}

/// What the driver answers to its own `GET /status` (WebDriver §8.3).
pub(crate) fn status<N: NodeLink>(
    alloc: Global,
    nodes: &mut N,
    driver: &NodeAddress,
) -> Result<Reply, ExchangeFault>
    ensures { N.gives nodes.old driver.now ask_for_status result nodes.new }
{
    let request = NodeRequest {
        method: b"GET",
        target: STATUS.as_bytes(),
        accept: None,
        accept_encoding: None,
        content_type: None,
        content_encoding: None,
        body: b"",
    };
    nodes.exchange(alloc, driver, &request)
}
