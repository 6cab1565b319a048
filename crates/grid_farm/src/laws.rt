//! That slots stand in order.
ghost use Rattle.std.specs.Prelude.{List};
ghost use Rattle.grid_types.specs.declared.entry.Entry.{Entry};
ghost use Rattle.grid_farm.specs.Farms.{farm_of};
ghost use Rattle.grid_farm.specs.Orders.{Ascends};

/// The slots in use stand by the numbers of their nodes and by their own, and none stands twice.
pub fn slots_stand_in_order()
    ensures { (history : List Entry) → Ascends (farm_of history).uses }
{}
