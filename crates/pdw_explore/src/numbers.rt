//! The new numbers of groups.

ghost use Rattle.std.specs.Prelude.{◌≡◌, ◌<◌, length, map, slice_index_or, OnOk};
ghost use Rattle.std.specs.List.{AllByRecursion};
ghost use Rattle.pdw_explore.specs.Grown as spec;

use pdw_base::NoMemory;
use pdw_groups::{Expr, GroupId};
use sqlite_items::Items;

/// The new number of a written group.
pub fn new_number(numbers: &[GroupId], old: GroupId) -> GroupId
    requires { old.0 < length numbers.now }
    ensures { result ≡ spec.new_number numbers.now old }
{
    numbers[old.0 as usize]
}

fn id_at(ids: &[GroupId], place: usize) -> GroupId
    requires { place < length ids.now }
    ensures { result ≡ slice_index_or ids.now place (record { 0 = 0 }) }
{
    ids[place]
}

/// Puts new numbers in the place of those of written groups.
pub fn renumber(ids: &mut Items<GroupId>, numbers: &[GroupId])
    requires { AllByRecursion (λ id. id.0 < length numbers.now) ids.old }
    ensures { ids.new ≡ map (spec.new_number numbers.now) ids.old }
{
    for place in 0..ids.len() {
        let old = id_at(ids.as_slice(), place);
        ids.set(place, new_number(numbers, old));
    }
}

fn renumbered(mut expr: Expr, numbers: &[GroupId]) -> Expr
    requires { AllByRecursion (λ child. child.0 < length numbers.now) expr.children }
    ensures { result ≡ spec.renumbered_expr numbers.now expr }
{
    renumber(&mut expr.children, numbers);
    expr
}

/// Gives the children of expressions their new numbers.
pub fn renumber_exprs(exprs: &mut Items<Expr>, numbers: &[GroupId]) -> Result<(), NoMemory>
    requires { AllByRecursion (λ expr. AllByRecursion (λ child. child.0 < length numbers.now) expr.children) exprs.old }
    ensures { OnOk result (exprs.new ≡ map (spec.renumbered_expr numbers.now) exprs.old) }
{
    for _ in 0..exprs.len() {
        let expr = exprs.remove(0);
        exprs.push(renumbered(expr, numbers))?;
    }
    Ok(())
}
