//! The law that there are least costs.

ghost use Rattle.std.specs.Prelude.{List};
ghost use Rattle.pdw_groups.specs.declared.group.Group.{Group as GroupValue};
ghost use Rattle.pdw_least.specs.Premises.{AreLight, AreOrdered};
ghost use Rattle.pdw_ways.specs.Ways.{Costs};
ghost use Rattle.pdw_least_exists.specs.Exists.{AreCheap, HasLeastTable};

/// For all groups whose children have smaller numbers and that weigh little, whatever moves cost below 2^97, there is a table of
/// least costs: for each group and each of its properties the least cost of a plan, unreachable exactly where there is none.
pub fn there_is_a_least_table()
    ensures { (groups : List GroupValue) (costs : Costs) → AreOrdered groups → AreLight groups → AreCheap costs → HasLeastTable groups costs }
{}
