//! The deepest plan of a plan file.

ghost use Rattle.std.specs.Prelude.{◌≡◌, ◌+◌, ◌*◌, ◌≤◌, IfOk};
ghost use Rattle.pdw_plan.specs.Count.{node_count};

use super::groups::{A, scan_group};
use super::plans::{free, moved, scan};
use pdw_base::NoMemory;
use pdw_groups::GroupId;
use pdw_move::{Move, Prop};
use pdw_plan::{Plan, well_formed_over};
use sqlite_items::Items;
use std::alloc::Global;
use std::test::Fail;

// A scan whose rows are spread and shuffled so many times.
fn chain(alloc: Global, times: u32) -> Result<Plan, NoMemory>
    requires { times ≤ 4096 }
    ensures { IfOk result (λ plan. node_count plan ≡ 2 * times + 1) }
{
    if times == 0 {
        return Ok(scan(0, Prop::Hash(A)));
    }
    let below = chain(alloc, times - 1)?;
    let spread = free(alloc, Prop::Spread, below)?;
    moved(alloc, Move::Shuffle(A), spread)
}

#[test]
fn a_plan_of_height_4096_is_checked(rt: HostRuntime) -> Result<(), Fail> {
    let alloc = rt.alloc();
    let mut groups = Items::new(alloc);
    groups.push(scan_group(alloc, 0, "l", A)?)?;
    let plan = free(alloc, Prop::Spread, chain(alloc, 2047)?)?;
    let found = well_formed_over(&plan, groups.as_slice());
    assert!(rt; found == Ok((GroupId(0), Prop::Spread)));
    Ok(())
}
