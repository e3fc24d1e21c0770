//! How much moves of the groups of a memo move.

ghost use Rattle.std.specs.List.{slice_get};
ghost use Rattle.std.specs.Prelude.{◌≡◌, ◌<◌, ◌≤◌, ◌^◌, IfOk, Some, length};
ghost use Rattle.pdw_enum.specs.Flows.{flows_in};
ghost use Rattle.pdw_memo.specs.Memo.{IsMemo};

use pdw_base::NoMemory;
use pdw_groups::GroupId;
use pdw_move::Flow;
use pdw_plan::Problem;
use pdw_sizes::size_of;
use sqlite_items::Items;
use std::alloc::Global;

// By the size of a group.
fn flow_at(p: &Problem<'_>, group: GroupId) -> Flow
    requires { group.0 < length p.now.memo.now.groups }
    ensures { (is : IsMemo p.now.memo.now) → slice_get (flows_in p.now.memo.now is p.now.book.now p.now.n) group.0 ≡ Some result }
{
    let size = size_of(p.memo, group, p.book, p.n);
    Flow {
        rows: size.rows,
        width: size.width,
    }
}

/// The flow of each group, by number.
pub(crate) fn all_flows(alloc: Global, p: &Problem<'_>) -> Result<Items<Flow>, NoMemory>
    requires few { length p.now.memo.now.groups ≤ 2 ^ 32 }
    ensures { IfOk result (λ flows. (is : IsMemo p.now.memo.now) → flows ≡ flows_in p.now.memo.now is p.now.book.now p.now.n) }
{
    let count = p.memo.groups().len();
    let mut flows = Items::new(alloc);
    for number in 0..count {
        flows.push(flow_at(p, GroupId(number as u32)))?;
    }
    Ok(flows)
}
