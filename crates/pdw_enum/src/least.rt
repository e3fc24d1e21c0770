//! The least plan of a problem.

ghost use Rattle.std.specs.Prelude.{◌≡◌, IfOk, None};
ghost use Rattle.pdw_enum.specs.Least.{IsLeastPlan, IsShort};
ghost use Rattle.pdw_enum.specs.Root.{IsCheapest, IsRooted};
ghost use Rattle.pdw_least.specs.Premises.{ArePremises, costs_of};
ghost use Rattle.pdw_least.specs.Reached.{AreMade};
ghost use Rattle.pdw_least.specs.Table.{IsLeastTable};
ghost use Rattle.pdw_memo.specs.Memo.{IsMemo};
ghost use Rattle.pdw_move.specs.Cost.{AreInRange};
ghost use Rattle.pdw_plan.specs.Cost.{costs_in};
ghost use Rattle.pdw_ways.specs.Shape.{query_fault, shape_of};
ghost use Rattle.pdw_ways.specs.Ways.{Costs as CostsOf};

use crate::flows::all_flows;
use crate::root::cheapest;
use pdw_base::NoMemory;
use pdw_groups::GroupId;
use pdw_least::{Search, Table, each_group_is_reached, plans_have_few_operators};
use pdw_plan::{Bounds, Made, Plan, Problem};
use pdw_ways::{Costing, tight_bounds_leave_none_cheaper};
use std::alloc::Global;

// The rows of the root under the property that costs least.
fn cheapest_root(alloc: Global, search: &Search<'_>, table: &Table) -> Result<Made, NoMemory>
    requires premises { ArePremises search.now.groups.now search.now.costing.now }
    requires made { AreMade search.now.groups.now }
    requires rooted { IsRooted search.now.groups.now }
    requires least { IsLeastTable search.now.groups.now (costs_of search.now.costing.now) table.now.lists table.now.log }
    ensures { IfOk result (λ made. IsCheapest search.now.groups.now table.now.lists made) }
{
    each_group_is_reached();
    let last = search.groups.len() - 1;
    let root = &search.groups[last];
    let bounds = &table.lists.as_slice()[last];
    let prop = cheapest(alloc, root.interesting.as_slice(), bounds.as_slice())?;
    Ok(Made {
        group: GroupId(last as u32),
        prop,
    })
}

// A plan for the last group that costs least, with the least costs of all groups.
fn least_plan(alloc: Global, search: &Search<'_>) -> Result<(Plan, Bounds), NoMemory>
    requires premises { ArePremises search.now.groups.now search.now.costing.now }
    requires made { AreMade search.now.groups.now }
    requires rooted { IsRooted search.now.groups.now }
    ensures query { IfOk result (λ made. query_fault search.now.groups.now (shape_of search.now.groups.now (costs_of search.now.costing.now) made.0) ≡ None) }
    ensures short { IfOk result (λ made. IsShort made.0) }
    ensures least { IfOk result (λ made. IsLeastPlan search.now.groups.now (costs_of search.now.costing.now) made.0 made.1.lists) }
{
    let table = search.relax(alloc)?;
    let made = cheapest_root(alloc, search, &table)?;
    let plan = search.build(alloc, &table, made)?;
    tight_bounds_leave_none_cheaper();
    plans_have_few_operators();
    let Table { lists, .. } = table;
    Ok((plan, Bounds { lists }))
}

/// A plan for the query that costs least, and for each group of the memo and each of its properties the least cost of any plan;
/// None exactly where there is no plan. The plan comes back to no property in a run of moves and free changes. Each constant is
/// 1 to 1,000.
pub fn plan(alloc: Global, p: &Problem<'_>) -> Result<(Plan, Bounds), NoMemory>
    requires constants { AreInRange p.now.constants.now }
    ensures query { IfOk result (λ made. (costs : CostsOf) → query_fault p.now.memo.now.groups (shape_of p.now.memo.now.groups costs made.0) ≡ None) }
    ensures short { IfOk result (λ made. IsShort made.0) }
    ensures least { IfOk result (λ made. (is : IsMemo p.now.memo.now) → IsLeastPlan p.now.memo.now.groups (costs_in p.now.memo.now is p.now.book.now p.now.n p.now.constants.now) made.0 made.1.lists) }
{
    let groups = p.memo.groups();
    p.book.keeps_ranges();
    let _nodes = p.n.get();
    let flows = all_flows(alloc, p)?;
    let costing = Costing {
        flows: flows.as_slice(),
        n: p.n,
        constants: p.constants,
    };
    let search = Search {
        groups,
        costing: &costing,
    };
    least_plan(alloc, &search)
}
