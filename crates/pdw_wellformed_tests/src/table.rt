//! Plans of the left join: by the left column's hash they are well-formed, by the right one's not.

ghost use Rattle.std.specs.Prelude.{◌≡◌, IfOk};
ghost use Rattle.pdw_plan.specs.Count.{node_count};

use super::groups::{A, B, join_groups};
use super::plans::{over_one, over_two, scan};
use pdw_base::NoMemory;
use pdw_groups::GroupId;
use pdw_move::Prop;
use pdw_plan::{Plan, PlanFault, well_formed_over};
use std::alloc::Global;
use std::test::Fail;

fn joined(alloc: Global, prop: Prop) -> Result<Plan, NoMemory>
    ensures { IfOk result (λ plan. node_count plan ≡ 3) }
{
    over_two(
        alloc,
        2,
        prop,
        scan(0, Prop::Hash(A)),
        scan(1, Prop::Hash(B)),
    )
}

fn whole(alloc: Global, join: Prop, root: Prop) -> Result<Plan, NoMemory>
    ensures { IfOk result (λ plan. node_count plan ≡ 4) }
{
    over_one(alloc, 3, root, joined(alloc, join)?)
}

#[test]
fn a_left_join_stands_by_the_left_hash(rt: HostRuntime) -> Result<(), Fail> {
    let alloc = rt.alloc();
    let groups = join_groups(alloc)?;
    for (join, root, answer) in [
        (A, A, Ok((GroupId(3), Prop::Hash(A)))),
        (B, B, Err(PlanFault { node: 2 })),
        (A, B, Err(PlanFault { node: 3 })),
    ] {
        let plan = whole(alloc, Prop::Hash(join), Prop::Hash(root))?;
        let found = well_formed_over(&plan, groups.as_slice());
        assert!(rt; found == answer);
    }
    Ok(())
}

#[test]
fn a_plan_ends_at_the_root(rt: HostRuntime) -> Result<(), Fail> {
    let alloc = rt.alloc();
    let groups = join_groups(alloc)?;
    let plan = joined(alloc, Prop::Hash(A))?;
    let found = well_formed_over(&plan, groups.as_slice());
    assert!(rt; found == Err(PlanFault { node: 2 }));
    Ok(())
}
