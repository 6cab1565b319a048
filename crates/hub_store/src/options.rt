//! Whether a journal is of a hub that is set up so.
ghost use Rattle.std.specs.Prelude.{◌≡◌, None, IfSome};
ghost use Rattle.hub_store.specs.Opens.{Differs};
ghost use Rattle.hub_store.specs.Stores.{HasOptions};

use crate::fault::HubOption;
use grid_types::HubConfig;

/// The option in which the hub that kept the journal differs from one that is set up so. What a hub may do depends on it, so a
/// history goes on under the same alone.
pub(crate) fn other_option(told: &HubConfig, kept: &HubConfig) -> Option<HubOption>
    ensures same { result ≡ None → HasOptions told.now kept.now }
    ensures other { IfSome result (λ name. Differs name told.now kept.now) }
{
    if kept.timeout_ms != told.timeout_ms {
        return Some(HubOption::RequestTimeout);
    }
    if kept.idle_ms != told.idle_ms {
        return Some(HubOption::SessionTimeout);
    }
    if kept.queue_requests != told.queue_requests {
        return Some(HubOption::QueueLimit);
    }
    if kept.reject_unsupported != told.reject_unsupported {
        return Some(HubOption::Unsupported);
    }
    if kept.lapse_ms != told.lapse_ms || kept.down_ms != told.down_ms {
        return Some(HubOption::Lapse);
    }
    None
}
