//! SELECT and PROFILE: a plan is executed, and its rows become the table of the query.

ghost use Rattle.std.specs.Prelude.{◌≡◌, IfOk, map};
ghost use Rattle.std.specs.List.{flat_map};
ghost use Rattle.std.specs.List.Sorted.{IsPermutation};
ghost use Rattle.pdw_base.specs.Schema.{cell};
ghost use Rattle.pdw_bind.specs.Bind.{bound};
ghost use Rattle.pdw_catalog.specs.Database.{undivided};
ghost use Rattle.pdw_dms.specs.Picker.{Tells};
ghost use Rattle.pdw_dsql.specs.Steps.{root_schema};
ghost use Rattle.pdw_expr.specs.Rows.{key_of};
ghost use Rattle.pdw_form.specs.Numbered.{outs_of};
ghost use Rattle.pdw_memo.specs.Memo.{IsMemo, IsPlannable};
ghost use Rattle.pdw_move.specs.Cost.{AreInRange};
ghost use Rattle.pdw_planner.specs.Planned.{IsPlanned, cost_in};
ghost use Rattle.pdw_runner.specs.Asks.{AsksAll, AsksEach};
ghost use Rattle.pdw_runner.specs.Counts.{AreCounted};
ghost use Rattle.pdw_runner.specs.Executed.{takes_of};
ghost use Rattle.pdw_select.specs.PlannedOver.{IsPlannedOver};
ghost use Rattle.pdw_select.specs.Selected.{SelectedBy, items_of};
ghost use Rattle.pdw_semantics.specs.Answer.{IsOrdered};

use crate::order::ordered;
use crate::outputs::{output_names, output_rows};
use pdw_answer::{Profile, StepCount, Table1};
use pdw_base::{Bag, NoMemory, Schema};
use pdw_catalog::Appliance;
use pdw_dms::Picker;
use pdw_form::JudgedSelect;
use pdw_memo::Memo;
use pdw_plan::{Problem, cost_of};
use pdw_planner::{Ground, Planned};
use pdw_runner::{Run, run_plan};
use sqlite_items::Items;
use std::alloc::Global;

// What executing the plan of a query gave: the table of the query, and what each move did.
#[derive(Drop)]
struct Executed {
    table: Table1,
    counts: Items<StepCount>,
}

// The columns of the root group.
fn root_columns(memo: &Memo) -> &Schema
    ensures { result.now ≡ root_schema memo.now.groups }
{
    let groups = memo.groups();
    &groups[groups.len() - 1].schema
}

// The table of a SELECT, of rows of these columns.
fn table_of(
    alloc: Global,
    form: &JudgedSelect,
    columns: &Schema,
    bags: &[Bag],
) -> Result<Table1, NoMemory>
    ensures names { IfOk result (λ table. table.names ≡ map (λ item. item.name) (items_of form.now.query)) }
    ensures rearranged { IfOk result (λ table. IsPermutation (map (key_of (outs_of (items_of form.now.query))) (map (cell columns.now) (flat_map (λ bag. bag) bags.now))) table.rows) }
    ensures ordered { IfOk result (λ table. IsOrdered form.now.order table.rows) }
{
    let items = form.query.items.as_slice();
    let rows = output_rows(alloc, items, columns, bags)?;
    Ok(Table1 {
        names: output_names(alloc, items)?,
        rows: ordered(alloc, form.order.as_slice(), rows)?,
    })
}

// Executes the plan of a query.
fn execute<P: Picker>(
    alloc: Global,
    appliance: &Appliance,
    form: &JudgedSelect,
    planned: &Planned,
    picker: &mut P,
) -> Result<Executed, NoMemory>
    requires { IsPlannedOver appliance.now.tables form.now.query planned.now }
    ensures selected { IfOk result (λ executed. SelectedBy (undivided appliance.now) form.now executed.table) }
    ensures counted { IfOk result (λ executed. AreCounted appliance.now.nodes (takes_of planned.now.memo.groups appliance.now planned.now.plan) executed.counts) }
    ensures asked { IfOk result (λ _. Tells (P.told picker.old) (P.told picker.new) (AsksAll appliance.now.nodes (takes_of planned.now.memo.groups appliance.now planned.now.plan))) }
    ensures each { IfOk result (λ executed. Tells (P.told picker.old) (P.told picker.new) (AsksEach appliance.now.nodes (takes_of planned.now.memo.groups appliance.now planned.now.plan) executed.counts)) }
{
    let _ = appliance.catalog();
    let Run { rows, counts } = run_plan(alloc, appliance, &planned.memo, &planned.plan, picker)?;
    let columns = root_columns(&planned.memo);
    let table = table_of(alloc, form, columns, rows.as_slice())?;
    Ok(Executed { table, counts })
}

/// The table of a SELECT by what its query was planned to over the appliance's tables: the rows of the query's tree over the
/// whole tables, read in the order of the items, in an order that the order keys allow. A picker that tells its calls was asked
/// for the events of each move's transfer, one move after the other, and for nothing else.
pub fn select_planned<P: Picker>(
    alloc: Global,
    appliance: &Appliance,
    form: &JudgedSelect,
    planned: &Planned,
    picker: &mut P,
) -> Result<Table1, NoMemory>
    requires { IsPlannedOver appliance.now.tables form.now.query planned.now }
    ensures selected { IfOk result (SelectedBy (undivided appliance.now) form.now) }
    ensures asked { IfOk result (λ _. Tells (P.told picker.old) (P.told picker.new) (AsksAll appliance.now.nodes (takes_of planned.now.memo.groups appliance.now planned.now.plan))) }
{
    let Executed { table, .. } = execute(alloc, appliance, form, planned, picker)?;
    Ok(table)
}

/// What a SELECT did that was executed by what its query was planned to over the ground: what its plan costs, what each of its
/// moves did in their order, and its table, which is one that the SELECT may answer. A picker that tells its calls was asked for
/// the events of each move's transfer, one move after the other, as many as are counted, and for nothing else.
pub fn profile_planned<P: Picker>(
    alloc: Global,
    appliance: &Appliance,
    ground: &Ground<'_>,
    form: &JudgedSelect,
    planned: &Planned,
    picker: &mut P,
) -> Result<Profile, NoMemory>
    requires tables { ground.now.catalog.now ≡ appliance.now.tables }
    requires constants { AreInRange ground.now.constants.now }
    requires plannable { IsPlannable ground.now.catalog.now (bound form.now.query) }
    requires planned { IsPlanned ground.now.catalog.now ground.now.book.now ground.now.n ground.now.budget ground.now.constants.now (bound form.now.query) planned.now }
    ensures selected { IfOk result (λ profile. SelectedBy (undivided appliance.now) form.now profile.table) }
    ensures cost { IfOk result (λ profile. (is : IsMemo planned.now.memo) → profile.cost ≡ cost_in planned.now is ground.now.book.now ground.now.n ground.now.constants.now) }
    ensures counted { IfOk result (λ profile. AreCounted appliance.now.nodes (takes_of planned.now.memo.groups appliance.now planned.now.plan) profile.steps) }
    ensures asked { IfOk result (λ _. Tells (P.told picker.old) (P.told picker.new) (AsksAll appliance.now.nodes (takes_of planned.now.memo.groups appliance.now planned.now.plan))) }
    ensures each { IfOk result (λ profile. Tells (P.told picker.old) (P.told picker.new) (AsksEach appliance.now.nodes (takes_of planned.now.memo.groups appliance.now planned.now.plan) profile.steps)) }
{
    let problem = Problem {
        memo: &planned.memo,
        book: ground.book,
        n: ground.n,
        constants: ground.constants,
    };
    let cost = cost_of(&planned.plan, &problem);
    let Executed { table, counts } = execute(alloc, appliance, form, planned, picker)?;
    Ok(Profile {
        cost,
        steps: counts,
        table,
    })
}
