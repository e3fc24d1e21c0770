//! CHECK PLAN: what is found of a file that should hold a least plan.

ghost use Rattle.std.specs.Prelude.{IfOk};
ghost use Rattle.pdw_answering.specs.Basis.{basis_in};
ghost use Rattle.pdw_answering.specs.Checks.{ChecksBy};
ghost use Rattle.pdw_bind.specs.Bind.{bound};
ghost use Rattle.pdw_memo.specs.Memo.{IsPlannable};
ghost use Rattle.pdw_move.specs.Cost.{AreInRange};

use pdw_answer::PlanVerdict;
use pdw_base::NoMemory;
use pdw_form::JudgedQuery;
use pdw_plan::Problem;
use pdw_plan_files::check_file;
use pdw_planner::{Ground, memo_of_query};
use std::alloc::Global;
use std::mem::drop;

/// What CHECK PLAN answers for a query: what is found of the bytes of a file over the query's memo, by this ground. It trusts
/// nothing of who made the file.
pub fn check_query(
    alloc: Global,
    query: &JudgedQuery,
    content: &[u8],
    ground: &Ground<'_>,
) -> Result<PlanVerdict, NoMemory>
    requires plannable { IsPlannable ground.now.catalog.now (bound query.now) }
    requires constants { AreInRange ground.now.constants.now }
    ensures { IfOk result (ChecksBy (basis_in ground.now.catalog.now ground.now.book.now ground.now.n ground.now.budget ground.now.constants.now) (bound query.now) content.now) }
{
    let memo = memo_of_query(alloc, query, ground)?;
    let problem = Problem {
        memo: &memo,
        book: ground.book,
        n: ground.n,
        constants: ground.constants,
    };
    let verdict = check_file(alloc, content, &problem);
    drop(memo);
    verdict
}
