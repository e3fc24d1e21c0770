//! What plans make.

ghost use Rattle.std.specs.Prelude.{◌≡◌, map, IfOk};
ghost use Rattle.pdw_explain.specs.Makes.{makes};

use pdw_base::NoMemory;
use pdw_move::Prop;
use pdw_plan::{Made, Plan};
use std::alloc::Global;

// The same rows, under this property.
fn placed(made: Made, prop: Prop) -> Made
    ensures { result ≡ record { group = made.group; prop = prop } }
{
    Made {
        group: made.group,
        prop,
    }
}

/// The group and the property of the rows that a plan makes.
pub fn made_by(plan: &Plan) -> Made
    ensures { result ≡ makes plan.now }
{
    match plan {
        Plan::Scan { group, prop } => Made {
            group: *group,
            prop: *prop,
        },
        Plan::Op { group, prop, .. } => Made {
            group: *group,
            prop: *prop,
        },
        Plan::Moved { mv, child } => placed(made_by(child.get()), mv.to()),
        Plan::Free { to, child } => placed(made_by(child.get()), *to),
    }
}

/// What each of these makes.
pub fn made_by_each(alloc: Global, plans: &[Plan]) -> Result<Vec<Made>, NoMemory>
    ensures { IfOk result (λ made. made.items ≡ map makes plans.now) }
{
    let mut made = Vec::new(alloc);
    for plan in plans {
        made.push(made_by(plan))?;
    }
    Ok(made)
}
