//! The lines of moves and of free changes.

ghost use Rattle.std.specs.Prelude.{◌≡◌, ◌<◌, length};
ghost use Rattle.pdw_explain.specs.Lines as spec;
ghost use Rattle.pdw_memo.specs.Memo.{IsMemo};
ghost use Rattle.pdw_move.specs.Cost.{AreInRange};

use pdw_answer::{MoveFlow, PlanLine, PlanWord, word_of_move};
use pdw_groups::GroupId;
use pdw_move::{Flow, Move, Prop, move_cost};
use pdw_plan::Problem;
use pdw_sizes::size_of;

// What a move of a group is reckoned to move, and what it costs.
fn flow_of(p: &Problem<'_>, group: GroupId, mv: &Move) -> MoveFlow
    requires group { group.0 < length p.now.memo.now.groups }
    requires constants { AreInRange p.now.constants.now }
    ensures { (is : IsMemo p.now.memo.now) → result ≡ spec.flows_in p.now.memo.now is p.now.book.now p.now.n p.now.constants.now group mv.now }
{
    let _groups = p.memo.groups();
    p.book.keeps_ranges();
    let _nodes = p.n.get();
    let size = size_of(p.memo, group, p.book, p.n);
    let flow = Flow {
        rows: size.rows,
        width: size.width,
    };
    MoveFlow {
        rows: size.rows,
        width: size.width,
        cost: move_cost(mv, flow, p.n, p.constants),
    }
}

/// The line of a move of a group.
pub fn move_line(p: &Problem<'_>, depth: u32, group: GroupId, mv: Move) -> PlanLine
    requires group { group.0 < length p.now.memo.now.groups }
    requires constants { AreInRange p.now.constants.now }
    ensures { (is : IsMemo p.now.memo.now) → result ≡ spec.move_line depth group mv (spec.flows_in p.now.memo.now is p.now.book.now p.now.n p.now.constants.now group mv) }
{
    PlanLine {
        depth,
        word: word_of_move(mv),
        group: group.0,
        alias: None,
        prop: mv.to(),
        flow: Some(flow_of(p, group, &mv)),
    }
}

/// The line of a free change of a group's rows.
pub fn free_line(depth: u32, group: GroupId, to: Prop) -> PlanLine
    ensures { result ≡ spec.free_line depth group to }
{
    PlanLine {
        depth,
        word: PlanWord::Free,
        group: group.0,
        alias: None,
        prop: to,
        flow: None,
    }
}
