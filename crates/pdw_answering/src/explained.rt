//! EXPLAIN: the lines of a least plan.

ghost use Rattle.std.specs.Prelude.{IfOk};
ghost use Rattle.pdw_algebra.specs.declared.tree.Tree.{Tree as AnyTree};
ghost use Rattle.pdw_answering.specs.Basis.{basis_in};
ghost use Rattle.pdw_answering.specs.Explains.{ExplainsBy};
ghost use Rattle.pdw_memo.specs.Memo.{IsPlannable};
ghost use Rattle.pdw_move.specs.Cost.{AreInRange};
ghost use Rattle.pdw_planner.specs.Planned.{IsPlanned};

use pdw_answer::PlanText;
use pdw_base::NoMemory;
use pdw_explain::explain;
use pdw_plan::Problem;
use pdw_planner::{Ground, Planned};
use std::alloc::Global;

/// What EXPLAIN answers of a query that was planned over this ground: what its plan costs, and a line for each of its nodes.
pub fn explain_planned(
    alloc: Global,
    planned: &Planned,
    ground: &Ground<'_>,
) -> Result<PlanText, NoMemory>
    requires planned { (tree : AnyTree) × IsPlanned ground.now.catalog.now ground.now.book.now ground.now.n ground.now.budget ground.now.constants.now tree planned.now }
    requires constants { AreInRange ground.now.constants.now }
    ensures { IfOk result (λ text. (tree : AnyTree) → IsPlannable ground.now.catalog.now tree → IsPlanned ground.now.catalog.now ground.now.book.now ground.now.n ground.now.budget ground.now.constants.now tree planned.now → ExplainsBy (basis_in ground.now.catalog.now ground.now.book.now ground.now.n ground.now.budget ground.now.constants.now) tree planned.now.plan text) }
{
    let problem = Problem {
        memo: &planned.memo,
        book: ground.book,
        n: ground.n,
        constants: ground.constants,
    };
    explain(alloc, &planned.plan, &problem)
}
