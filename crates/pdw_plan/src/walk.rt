//! The walk over a plan's nodes, children first.

ghost use Rattle.std.specs.Prelude.{◌≡◌, ◌+◌, ◌<◌, ◌^◌, suc, sum, map, None, Some, Ok, if◌then◌else◌};
ghost use Rattle.pdw_plan.specs.Count.{node_count};
ghost use Rattle.pdw_plan.specs.Walk as spec;
ghost use Rattle.pdw_plan.specs.declared.node.Children.TheVariants as children;
ghost use Rattle.pdw_ways.specs.Shape.{shape_of};

use crate::node::{Children, is_freed_at, is_moved_at, is_operated_at, is_scanned_at};
use pdw_groups::Group;
use pdw_ways::{Made, Plan, PlanFault};

/// What a plan makes, and the number of the node after its last.
#[derive(Clone, Copy)]
pub(crate) struct Walked {
    pub(crate) made: Made,
    pub(crate) next: u32,
}

// What plans make, and the number of the node after the last.
#[derive(Clone, Copy)]
struct Below {
    children: Children,
    next: u32,
}

// A node, where it is a way.
fn passed(is_way: bool, made: Made, number: u32) -> Result<Walked, PlanFault>
    requires { suc number < 2 ^ 32 }
    ensures { result ≡ spec.unless (if is_way then None else Some number) (Ok (record { made = made; next = suc number })) }
{
    if is_way {
        return Ok(Walked {
            made,
            next: number + 1,
        });
    }
    Err(PlanFault { node: number })
}

#[cycle(walk)]
fn walk_all(plans: &[Plan], groups: &[Group], before: u32) -> Result<Below, PlanFault>
    requires { before + sum (map node_count plans.now) < 2 ^ 32 }
    ensures { result ≡ spec.all_walked (record { children = children.Nothing; next = before }) (map (shape_of groups.now spec.no_costs) plans.now) }
{
    let mut below = Below {
        children: Children::Nothing,
        next: before,
    };
    for plan in plans {
        let walked = walk(plan, groups, below.next)?;
        below = Below {
            children: below.children.with(walked.made),
            next: walked.next,
        };
    }
    Ok(below)
}

/// What a plan makes, where each of its nodes is a way, or the first that is none. They are numbered after `before` others.
#[cycle(walk)]
pub(crate) fn walk(plan: &Plan, groups: &[Group], before: u32) -> Result<Walked, PlanFault>
    requires { before + node_count plan.now < 2 ^ 32 }
    ensures { result ≡ spec.walked before (shape_of groups.now spec.no_costs plan.now) }
{
    match plan {
        Plan::Scan { group, prop } => {
            let made = Made {
                group: *group,
                prop: *prop,
            };
            passed(is_scanned_at(groups, *group, *prop), made, before)
        }
        Plan::Op {
            group,
            prop,
            children,
        } => {
            let below = walk_all(children.as_slice(), groups, before)?;
            let made = Made {
                group: *group,
                prop: *prop,
            };
            let is_way = is_operated_at(groups, *group, below.children, *prop);
            passed(is_way, made, below.next)
        }
        Plan::Moved { mv, child } => {
            let below = walk(child.get(), groups, before)?;
            let made = Made {
                group: below.made.group,
                prop: mv.to(),
            };
            passed(is_moved_at(groups, below.made, *mv), made, below.next)
        }
        Plan::Free { to, child } => {
            let below = walk(child.get(), groups, before)?;
            let made = Made {
                group: below.made.group,
                prop: *to,
            };
            passed(is_freed_at(groups, below.made, *to), made, below.next)
        }
    }
}
