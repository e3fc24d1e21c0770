//! The expression that a node of a plan applies.

ghost use Rattle.std.specs.List.{find};
ghost use Rattle.std.specs.Option.{option_copied};
ghost use Rattle.std.specs.Prelude.{◌≡◌};
ghost use Rattle.pdw_plan.specs.Given as spec;
ghost use Rattle.pdw_ways.specs.Ways as way;

use pdw_groups::{Expr, Group, GroupId};
use pdw_ways::Made;
use sqlite_items::at;

// Whether these are of the children's groups, one for each.
fn are_groups_of(below: &[Made], children: &[GroupId]) -> bool
    ensures { result ≡ way.are_groups_of below.now children.now }
{
    if below.len() != children.len() {
        return false;
    }
    for place in 0..below.len() {
        if below[place].group.0 != children[place].0 {
            return false;
        }
    }
    true
}

fn first_over<'a>(exprs: &'a [Expr], below: &[Made]) -> Option<&'a Expr>
    ensures { option_copied result ≡ find (λ expr. way.are_groups_of below.now expr.children) exprs.now }
{
    exprs
        .iter()
        .find(|expr| are_groups_of(below, expr.children.as_slice()))
}

/// The expression of a group that is over children that make these, or None where there is no such group or expression.
pub fn expr_over<'a>(groups: &'a [Group], number: GroupId, below: &[Made]) -> Option<&'a Expr>
    ensures { option_copied result ≡ spec.expr_over groups.now number below.now }
{
    match at(groups, number.0 as usize) {
        Some(group) => first_over(group.exprs.as_slice(), below),
        None => None,
    }
}
