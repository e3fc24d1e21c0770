//! What is found of a file that should hold a least plan.

ghost use Rattle.std.specs.Prelude.{◌<◌, ◌^◌, IfOk};
ghost use Rattle.pdw_cert.specs.Shape.{AreSmallNumbers};
ghost use Rattle.pdw_memo.specs.Memo.{IsMemo};
ghost use Rattle.pdw_move.specs.Cost.{AreInRange};
ghost use Rattle.pdw_plan.specs.Cost.{costs_in};
ghost use Rattle.pdw_plan.specs.Count.{node_count};
ghost use Rattle.pdw_plan_files.specs.Verdict.{IsFoundOf, IsVerdictOn};

use pdw_answer::PlanVerdict;
use pdw_base::NoMemory;
use pdw_cert::check;
use pdw_plan::Problem;
use pdw_planjson::{JsonFault, PlanFile, from_text};
use std::alloc::Global;

// What the checker finds of the plan of a file, with its cost and its bounds.
fn found_of(p: &Problem<'_>, file: &PlanFile) -> PlanVerdict
    requires few { node_count file.now.plan < 2 ^ 32 }
    requires constants { AreInRange p.now.constants.now }
    requires small { AreSmallNumbers file.now.bounds.lists }
    ensures { (is : IsMemo p.now.memo.now) → IsFoundOf p.now.memo.now.groups (costs_in p.now.memo.now is p.now.book.now p.now.n p.now.constants.now) file.now result }
{
    match check(p, &file.plan, file.cost, &file.bounds) {
        Ok(cost) => PlanVerdict::Accepted(cost),
        Err(fault) => PlanVerdict::Check(fault),
    }
}

/// What is found of the bytes of a file: that they are no plan file, by the first rule that they break; or that the plan is not
/// accepted with the file's cost and bounds, by the first fault; or that it is a least plan for the query, with its cost. Want of
/// memory is no verdict. The constants are in their ranges.
pub fn check_file(alloc: Global, content: &[u8], p: &Problem<'_>) -> Result<PlanVerdict, NoMemory>
    requires constants { AreInRange p.now.constants.now }
    ensures { IfOk result (λ verdict. (is : IsMemo p.now.memo.now) → IsVerdictOn p.now.memo.now.groups (costs_in p.now.memo.now is p.now.book.now p.now.n p.now.constants.now) content.now verdict) }
{
    match from_text(alloc, content) {
        Ok(file) => Ok(found_of(p, &file)),
        Err(JsonFault::Memory) => Err(NoMemory),
        Err(fault) => Ok(PlanVerdict::Json(fault)),
    }
}
