//! The line of an operator.

ghost use Rattle.std.specs.Prelude.{◌≡◌, ◌++◌, IfOk, OnOk, Some};
ghost use Rattle.pdw_explain.specs.Lines as spec;
ghost use Rattle.pdw_plan.specs.Given.{expr_over as expression};

use pdw_answer::{PlanLine, PlanWord};
use pdw_base::{NoMemory, Str};
use pdw_expr::JoinKind;
use pdw_groups::{Group, Op};
use pdw_plan::{Made, expr_over};
use std::alloc::Global;

fn word_of_join(kind: JoinKind) -> PlanWord
    ensures { result ≡ spec.word_of_join kind }
{
    match kind {
        JoinKind::Inner => PlanWord::Join,
        JoinKind::Left => PlanWord::Left,
        JoinKind::Full => PlanWord::Full,
        JoinKind::Semi => PlanWord::Semi,
        JoinKind::Anti => PlanWord::Anti,
    }
}

fn word_of(op: &Op) -> PlanWord
    ensures { result ≡ spec.word_of op.now }
{
    match op {
        Op::Scan { .. } => PlanWord::Scan,
        Op::Filter { .. } => PlanWord::Filter,
        Op::Project { .. } => PlanWord::Project,
        Op::Join { kind, .. } => word_of_join(*kind),
        Op::GroupBy { .. } => PlanWord::Group,
        Op::Partial { .. } => PlanWord::Partial,
        Op::Final { .. } => PlanWord::Final,
    }
}

fn alias_of(alloc: Global, op: &Op) -> Result<Option<Str>, NoMemory>
    ensures { IfOk result (λ alias. alias ≡ spec.alias_of op.now) }
{
    match op {
        Op::Scan { alias, .. } => Ok(Some(alias.try_copy(alloc)?)),
        _ => Ok(None),
    }
}

fn operator_line(alloc: Global, depth: u32, made: Made, op: &Op) -> Result<PlanLine, NoMemory>
    ensures { IfOk result (λ line. line ≡ spec.operator_line depth made op.now) }
{
    let alias = alias_of(alloc, op)?;
    Ok(PlanLine {
        depth,
        word: word_of(op),
        group: made.group.0,
        alias,
        prop: made.prop,
        flow: None,
    })
}

/// Adds the line of the operator that makes the rows of its group over what the children make.
pub fn push_operator(
    alloc: Global,
    groups: &[Group],
    depth: u32,
    made: Made,
    below: &[Made],
    lines: &mut Vec<PlanLine>,
) -> Result<(), NoMemory>
    ensures { OnOk result (lines.new.items ≡ lines.old.items ++ spec.operator_lines depth made (expression groups.now made.group below.now)) }
{
    match expr_over(groups, made.group, below) {
        Some(expr) => {
            lines.push(operator_line(alloc, depth, made, &expr.op)?)?;
            Ok(())
        }
        None => Ok(()),
    }
}
