//! Plans that are executed over the rows at the nodes.

ghost use Rattle.std.specs.Prelude.{◌≡◌, ◌<◌, ◌^◌, [], IfOk, None, length, map};
ghost use Rattle.std.specs.List.{flat_map};
ghost use Rattle.pdw_base.specs.SameBag.{SameBag};
ghost use Rattle.pdw_base.specs.Schema.{cell};
ghost use Rattle.pdw_catalog.specs.Appliance.{IsSound};
ghost use Rattle.pdw_dms.specs.Picker.{Tells};
ghost use Rattle.pdw_dsql.specs.Follows.{returned_of, taken_in_turn};
ghost use Rattle.pdw_dsql.specs.Sites.{rows_from};
ghost use Rattle.pdw_dsql.specs.Typed.{AreTyped, schemas_of};
ghost use Rattle.pdw_exec.specs.Shapes.{local_schema};
ghost use Rattle.pdw_plan.specs.Count.{node_count};
ghost use Rattle.pdw_plan.specs.Walk.{no_costs};
ghost use Rattle.pdw_runner.specs.Asks.{AsksAll, AsksEach};
ghost use Rattle.pdw_runner.specs.Counts.{AreCounted};
ghost use Rattle.pdw_runner.specs.Executed.{IsExecuted, IsMemoOver, takes_of};
ghost use Rattle.pdw_runner.specs.Tables.{columns_over, rows_over};
ghost use Rattle.pdw_ways.specs.Shape.{query_fault, shape_of};

use crate::made::made;
use crate::steps::{Stepped, run_steps};
use crate::temporaries::Temporaries;
use pdw_algebra::LocalTree;
use pdw_answer::StepCount;
use pdw_base::{Bag, NoMemory};
use pdw_catalog::Appliance;
use pdw_dms::Picker;
use pdw_dsql::{Site, Steps, cut};
use pdw_memo::Memo;
use pdw_move::Placed;
use pdw_plan::Plan;
use sqlite_items::Items;
use std::alloc::Global;

/// What a plan gave when it was executed.
#[derive(Drop)]
pub struct Run {
    /// The rows that are returned, as they stand at the nodes: a bag for each node, the control node last.
    pub rows: Items<Bag>,
    /// What each move did, in the order in which they were made.
    pub counts: Items<StepCount>,
}

// The rows of a tree at the nodes of its site, which are returned from there.
fn returned(
    alloc: Global,
    appliance: &Appliance,
    temps: &Temporaries,
    tree: &LocalTree,
    site: Site,
) -> Result<Items<Bag>, NoMemory>
    requires { IsSound appliance.now }
    ensures { IfOk result (λ bags. SameBag (map (cell (columns_over appliance.now temps.now tree.now)) (flat_map (λ bag. bag) bags)) (rows_from appliance.now.nodes site (rows_over appliance.now temps.now tree.now))) }
{
    let Placed { mut nodes, control } = made(alloc, appliance, temps, tree, site)?;
    nodes.push(control)?;
    Ok(nodes)
}

// Runs the steps, and returns the rows of the last tree.
fn run_all<P: Picker>(
    alloc: Global,
    appliance: &Appliance,
    steps: &Steps,
    picker: &mut P,
) -> Result<Run, NoMemory>
    requires sound { IsSound appliance.now }
    requires typed { AreTyped appliance.now.tables [] steps.now.moves }
    ensures rows { IfOk result (λ run. SameBag (map (cell (local_schema appliance.now.tables (schemas_of steps.now.moves) steps.now.last)) (flat_map (λ bag. bag) run.rows)) (returned_of appliance.now steps.now)) }
    ensures counts { IfOk result (λ run. AreCounted appliance.now.nodes (taken_in_turn appliance.now [] steps.now.moves) run.counts) }
    ensures asked { IfOk result (λ run. Tells (P.told picker.old) (P.told picker.new) (AsksEach appliance.now.nodes (taken_in_turn appliance.now [] steps.now.moves) run.counts)) }
{
    let Stepped { temps, counts } = run_steps(alloc, appliance, steps.moves.as_slice(), picker)?;
    let rows = returned(alloc, appliance, &temps, &steps.last, steps.last_site)?;
    Ok(Run { rows, counts })
}

// What holds of every appliance.
fn soundness(appliance: &Appliance)
    ensures { IsSound appliance.now }
{
    let _ = appliance.catalog();
}

/// Executes a plan for the query over a memo of the appliance's tables. The rows are those that the plan returns over the
/// appliance's, in no promised order, with the columns of the memo's last group. Each move is counted. A picker that tells
/// its calls was asked for one event of each move's transfer after the other, and for nothing else. It answers only want of
/// memory beside.
pub fn run_plan<P: Picker>(
    alloc: Global,
    appliance: &Appliance,
    memo: &Memo,
    plan: &Plan,
    picker: &mut P,
) -> Result<Run, NoMemory>
    requires memo { IsMemoOver appliance.now.tables memo.now }
    requires plan { query_fault memo.now.groups (shape_of memo.now.groups no_costs plan.now) ≡ None }
    requires few { node_count plan.now < 2 ^ 32 }
    ensures rows { IfOk result (λ run. IsExecuted memo.now.groups appliance.now plan.now (flat_map (λ bag. bag) run.rows)) }
    ensures counts { IfOk result (λ run. AreCounted appliance.now.nodes (takes_of memo.now.groups appliance.now plan.now) run.counts) }
    ensures asked { IfOk result (λ _. Tells (P.told picker.old) (P.told picker.new) (AsksAll appliance.now.nodes (takes_of memo.now.groups appliance.now plan.now))) }
    ensures each { IfOk result (λ run. Tells (P.told picker.old) (P.told picker.new) (AsksEach appliance.now.nodes (takes_of memo.now.groups appliance.now plan.now) run.counts)) }
{
    soundness(appliance);
    let steps = cut(alloc, plan, memo)?;
    run_all(alloc, appliance, &steps, picker)
}
