//! The steps of a plan, one after the other: local rows at the nodes, and a transfer of them.

ghost use Rattle.std.specs.Prelude.{◌≡◌, [], IfOk, length, map};
ghost use Rattle.pdw_dms.specs.Picker.{Tells};
ghost use Rattle.pdw_dsql.specs.Follows.{brought_by, taken_in_turn};
ghost use Rattle.pdw_dsql.specs.Typed.{AreTyped, schemas_of};
ghost use Rattle.pdw_runner.specs.Asks.{AsksEach};
ghost use Rattle.pdw_runner.specs.Brought.{Brings};
ghost use Rattle.pdw_runner.specs.Counts.{AreCounted};
ghost use Rattle.pdw_runner.specs.Tables.{Hold, columns_over, taken_over};

use crate::made::made;
use crate::temporaries::Temporaries;
use pdw_answer::StepCount;
use pdw_base::NoMemory;
use pdw_catalog::Appliance;
use pdw_dms::laws::rows_are_moved;
use pdw_dms::{Finished, Picker, Transfer, drive};
use pdw_dsql::Step;
use pdw_move::Placed;
use sqlite_items::Items;
use std::alloc::Global;

/// What a step brings: the rows of its temporary table, and what its move did.
#[derive(Drop)]
pub struct Arrived {
    pub rows: Placed,
    pub count: StepCount,
}

/// What steps leave: their temporary tables, and what their moves did.
#[derive(Drop)]
pub struct Stepped {
    pub temps: Temporaries,
    pub counts: Items<StepCount>,
}

// Makes the rows of a step's tree at its site, and moves them.
fn run_step<P: Picker>(
    alloc: Global,
    appliance: &Appliance,
    temps: &Temporaries,
    step: &Step,
    picker: &mut P,
) -> Result<Arrived, NoMemory>
    requires { columns_over appliance.now temps.now step.now.tree ≡ step.now.schema }
    ensures { IfOk result (λ arrived. Brings appliance.now.nodes (taken_over appliance.now temps.now step.now) arrived (P.told picker.old) (P.told picker.new)) }
{
    rows_are_moved();
    let start = made(alloc, appliance, temps, &step.tree, step.site)?;
    let schema = step.schema.try_copy(alloc)?;
    let transfer = Transfer::new(alloc, step.mv, schema, appliance.nodes(), start)?;
    let Finished {
        moved,
        sent,
        events,
    } = drive(alloc, transfer, picker)?;
    let count = StepCount {
        mv: step.mv,
        sent,
        events: events.len() as u64,
    };
    Ok(Arrived { rows: moved, count })
}

/// Runs steps one after the other, each over the temporary tables of those before it.
pub(crate) fn run_steps<P: Picker>(
    alloc: Global,
    appliance: &Appliance,
    steps: &[Step],
    picker: &mut P,
) -> Result<Stepped, NoMemory>
    requires { AreTyped appliance.now.tables [] steps.now }
    ensures tables { IfOk result (λ stepped. Hold appliance.now.nodes stepped.temps (map (brought_by appliance.now) (taken_in_turn appliance.now [] steps.now))) }
    ensures schemas { IfOk result (λ stepped. stepped.temps.schemas.items ≡ schemas_of steps.now) }
    ensures counted { IfOk result (λ stepped. AreCounted appliance.now.nodes (taken_in_turn appliance.now [] steps.now) stepped.counts) }
    ensures asked { IfOk result (λ stepped. Tells (P.told picker.old) (P.told picker.new) (AsksEach appliance.now.nodes (taken_in_turn appliance.now [] steps.now) stepped.counts)) }
{
    let mut temps = Temporaries {
        placed: Vec::new(alloc),
        schemas: Vec::new(alloc),
    };
    let mut counts = Items::new(alloc);
    for step in steps {
        let Arrived { rows, count } = run_step(alloc, appliance, &temps, step, picker)?;
        temps.placed.push(rows)?;
        temps.schemas.push(step.schema.try_copy(alloc)?)?;
        counts.push(count)?;
    }
    Ok(Stepped { temps, counts })
}
