//! EXPLAIN JSON: the plan file of a least plan.

ghost use Rattle.std.specs.Prelude.{IfOk};
ghost use Rattle.pdw_algebra.specs.declared.tree.Tree.{Tree as AnyTree};
ghost use Rattle.pdw_answering.specs.Basis.{basis_in};
ghost use Rattle.pdw_answering.specs.Prints.{PrintsBy};
ghost use Rattle.pdw_memo.specs.Memo.{IsPlannable};
ghost use Rattle.pdw_move.specs.Cost.{AreInRange};
ghost use Rattle.pdw_planner.specs.Planned.{IsPlanned};

use pdw_base::NoMemory;
use pdw_plan_files::plan_file;
use pdw_planner::{Ground, Planned};
use sqlite_items::Items;
use std::alloc::Global;

/// What EXPLAIN JSON answers of a query that was planned over this ground: the bytes of a plan file with its plan, the plan's
/// cost, and the least costs of all groups and properties as bounds.
pub fn print_planned(
    alloc: Global,
    planned: Planned,
    ground: &Ground<'_>,
) -> Result<Items<u8>, NoMemory>
    requires planned { (tree : AnyTree) × IsPlanned ground.now.catalog.now ground.now.book.now ground.now.n ground.now.budget ground.now.constants.now tree planned }
    requires constants { AreInRange ground.now.constants.now }
    ensures { IfOk result (λ bytes. (tree : AnyTree) → IsPlannable ground.now.catalog.now tree → IsPlanned ground.now.catalog.now ground.now.book.now ground.now.n ground.now.budget ground.now.constants.now tree planned → PrintsBy (basis_in ground.now.catalog.now ground.now.book.now ground.now.n ground.now.budget ground.now.constants.now) tree planned.plan bytes) }
{
    plan_file(alloc, planned, ground)
}
