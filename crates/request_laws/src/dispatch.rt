//! What a dispatch that found nothing tells of later ones, and kinds of requests: each law as the contract of a function that does nothing.
ghost use Rattle.grid_types.specs.declared.config.HubConfig.{HubConfig};
ghost use Rattle.request_laws.specs.Memory.{BelowStays, EntriesNarrow, LaterIsNarrower, NothingAtFirst, NothingStays};
ghost use Rattle.request_laws.specs.Kinds.{AlikeFitAlike, ChoicesAdd, FewerKinds, KindsDivide, KindsTell};
ghost use Rattle.request_laws.specs.KindLaws.{KindLaws};
ghost use Rattle.request_laws.specs.Leads.{LeadsAreFew};

use grid_types::history_laws;

/// Where no request below a number had a fitting slot from a moment on, but on some nodes, that stays so after each entry,
/// with the nodes and requests that the entry opens left out.
pub fn nothing_stays()
    ensures narrow { EntriesNarrow }
    ensures later { LaterIsNarrower }
    ensures first { NothingAtFirst }
    ensures stays { NothingStays }
    ensures below { BelowStays }
{
    history_laws();
}

/// Requests with equal choices and equal barred nodes are of one kind. What fits one of a kind fits each of it that waits
/// in time, so that going over the first of each kind finds what going over all finds.
pub fn kinds_tell()
    ensures divide { KindsDivide }
    ensures alike { AlikeFitAlike }
    ensures tell { KindsTell }
    ensures fewer { FewerKinds }
    ensures add { (c : HubConfig) → ChoicesAdd c }
{
    history_laws();
}

/// Where each waiting request has a lead, one of its kind that is no greater, and no two leads are of one kind, going over
/// the leads costs no more than going over the first of each kind.
pub fn leads_are_few()
    ensures { LeadsAreFew }
{
    history_laws();
}

/// What a table needs to know of kinds: that being of one kind is an equivalence, when two requests are of one kind, and
/// what fits and costs the same with them.
pub fn kind_laws()
    ensures { KindLaws }
{
    history_laws();
}
