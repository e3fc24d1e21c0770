//! The way from a query to its plan.

ghost use Rattle.std.specs.Prelude.{◌≡◌, IfOk};
ghost use Rattle.pdw_bind.specs.Bind.{bound};
ghost use Rattle.pdw_groups.specs.Memo.{all_written, memo_of};
ghost use Rattle.pdw_memo.specs.Memo.{IsPlannable};
ghost use Rattle.pdw_move.specs.Cost.{AreInRange};
ghost use Rattle.pdw_planner.specs.Planned.{IsPlanned, memo_within};

use crate::Planned;
use pdw_algebra::Tree;
use pdw_base::{NoMemory, NodeCount};
use pdw_bind::bind;
use pdw_catalog::Catalog;
use pdw_enum::plan;
use pdw_explore::explore;
use pdw_form::JudgedQuery;
use pdw_memo::{Memo, initial};
use pdw_move::Constants;
use pdw_plan::Problem;
use pdw_stats::StatsBook;
use std::alloc::Global;
use std::mem::drop;

/// What queries are planned over: the tables with their statistics, the compute nodes, the budget of join expressions to
/// explore, and what moving a byte costs.
#[derive(Drop)]
pub struct Ground<'a> {
    pub catalog: &'a Catalog,
    pub book: &'a StatsBook,
    pub n: NodeCount,
    pub budget: u32,
    pub constants: &'a Constants,
}

// The memo of a tree, explored within the budget.
fn memo_of_tree(alloc: Global, tree: &Tree, ground: &Ground<'_>) -> Result<Memo, NoMemory>
    requires { IsPlannable ground.now.catalog.now tree.now }
    ensures { IfOk result (λ memo. memo ≡ memo_within ground.now.budget ground.now.catalog.now tree.now) }
{
    let memo = initial(alloc, tree, ground.catalog)?;
    explore(alloc, memo, ground.budget)
}

/// The memo of a query's tree, explored within the budget. The tree is one of which there is a memo, as that of each statement is
/// that the judgement accepts.
pub fn memo_of_query(
    alloc: Global,
    query: &JudgedQuery,
    ground: &Ground<'_>,
) -> Result<Memo, NoMemory>
    requires { IsPlannable ground.now.catalog.now (bound query.now) }
    ensures { IfOk result (λ memo. memo ≡ memo_within ground.now.budget ground.now.catalog.now (bound query.now)) }
{
    let tree = bind(alloc, query)?;
    let memo = memo_of_tree(alloc, &tree, ground);
    drop(tree);
    memo
}

/// A least plan of a query over its memo, which is that of its tree, explored within the budget. The tree is one of which there
/// is a memo, as that of each statement is that the judgement accepts.
pub fn plan_query(
    alloc: Global,
    query: &JudgedQuery,
    ground: &Ground<'_>,
) -> Result<Planned, NoMemory>
    requires plannable { IsPlannable ground.now.catalog.now (bound query.now) }
    requires constants { AreInRange ground.now.constants.now }
    ensures { IfOk result (IsPlanned ground.now.catalog.now ground.now.book.now ground.now.n ground.now.budget ground.now.constants.now (bound query.now)) }
{
    let memo = memo_of_query(alloc, query, ground)?;
    let problem = Problem {
        memo: &memo,
        book: ground.book,
        n: ground.n,
        constants: ground.constants,
    };
    match plan(alloc, &problem) {
        Ok((plan, bounds)) => Ok(Planned { memo, plan, bounds }),
        Err(stop) => Err(stop),
    }
}
