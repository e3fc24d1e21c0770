//! A plan of seven nodes, with a fault at each.

ghost use Rattle.std.specs.Prelude.{◌≡◌, IfOk};
ghost use Rattle.pdw_plan.specs.Count.{node_count};

use super::groups::{A, B, join_groups};
use super::plans::{free, moved, over_one, over_two, scan};
use pdw_base::NoMemory;
use pdw_groups::GroupId;
use pdw_move::{Move, Prop};
use pdw_plan::{Plan, PlanFault, well_formed_over};
use std::alloc::Global;
use std::test::Fail;

// A property, or another at the node that is to be at fault.
fn unless_at(node: u32, fault: u32, prop: Prop, other: Prop) -> Prop {
    if node == fault { other } else { prop }
}

// The join, and its rows by the hash of the other column. A fault of 7 is none.
fn shuffled(alloc: Global, fault: u32) -> Result<Plan, NoMemory>
    ensures { IfOk result (λ plan. node_count plan ≡ 5) }
{
    let left = scan(0, unless_at(0, fault, Prop::Hash(A), Prop::Spread));
    let right = scan(1, unless_at(1, fault, Prop::Hash(B), Prop::Hash(A)));
    let join = unless_at(2, fault, Prop::Hash(A), Prop::Hash(B));
    let joined = over_two(alloc, 2, join, left, right)?;
    let spread = free(
        alloc,
        unless_at(3, fault, Prop::Spread, Prop::Single),
        joined,
    )?;
    let mv = if fault == 4 {
        Move::Trim(B)
    } else {
        Move::Shuffle(B)
    };
    moved(alloc, mv, spread)
}

fn seven(alloc: Global, fault: u32) -> Result<Plan, NoMemory>
    ensures { IfOk result (λ plan. node_count plan ≡ 7) }
{
    let below = shuffled(alloc, fault)?;
    let root = unless_at(5, fault, Prop::Hash(B), Prop::Hash(A));
    let whole = over_one(alloc, 3, root, below)?;
    free(
        alloc,
        unless_at(6, fault, Prop::Spread, Prop::Replicated),
        whole,
    )
}

#[test]
fn the_first_fault_is_found(rt: HostRuntime) -> Result<(), Fail> {
    let alloc = rt.alloc();
    let groups = join_groups(alloc)?;
    for node in 0..7 {
        let plan = seven(alloc, node)?;
        let found = well_formed_over(&plan, groups.as_slice());
        assert!(rt; found == Err(PlanFault { node }));
    }
    let plan = seven(alloc, 7)?;
    let found = well_formed_over(&plan, groups.as_slice());
    assert!(rt; found == Ok((GroupId(3), Prop::Spread)));
    Ok(())
}
