//! The joins of subquery conjuncts.

ghost use Rattle.std.specs.Prelude.{◌≡◌, ◌++◌, IfOk, is_some};
ghost use Rattle.pdw_algebra.specs.declared.tree.Tree.TheVariants as tree;
ghost use Rattle.pdw_bind.specs.Bind as spec;
ghost use Rattle.pdw_bind.specs.Bind.{trees};

use pdw_algebra::{Tree, conds_copy};
use pdw_base::{NoMemory, Truth};
use pdw_expr::{Cmp, Cond, JoinKind, Scalar};
use pdw_form::{JItem, JudgedQuery};
use sqlite_items::{Boxed, Items};
use std::alloc::Global;

// The value of an item over the tree of its query. Without groups it is the item's own expression.
fn item_scalar(alloc: Global, is_grouped: bool, item: &JItem) -> Result<Scalar, NoMemory>
    ensures { IfOk result (λ scalar. scalar ≡ spec.item_scalar is_grouped item.now) }
{
    if is_grouped {
        return Ok(Scalar::Col(item.out));
    }
    match &item.make {
        Some(scalar) => scalar.try_copy(alloc),
        None => Ok(Scalar::Col(item.out)),
    }
}

// The condition of IN, and that of NOT IN, which holds also where the comparison is unknown.
fn equality(alloc: Global, negated: bool, equal: Cond) -> Result<Cond, NoMemory>
    ensures { IfOk result (λ cond. cond ≡ spec.equality negated equal) }
{
    if !negated {
        return Ok(equal);
    }
    let test = Cond::Test(Boxed::new(alloc, equal)?, Truth::False);
    Ok(Cond::Not(Boxed::new(alloc, test)?))
}

fn item_condition(
    alloc: Global,
    negated: bool,
    left: &Scalar,
    is_grouped: bool,
    item: &JItem,
) -> Result<Cond, NoMemory>
    ensures { IfOk result (λ cond. cond ≡ spec.item_condition negated left.now is_grouped item.now) }
{
    let left = left.try_copy(alloc)?;
    let item = item_scalar(alloc, is_grouped, item)?;
    equality(alloc, negated, Cond::Compare(Cmp::Eq, left, item))
}

// The condition of IN. EXISTS has no left side and so none.
fn in_condition(
    alloc: Global,
    negated: bool,
    left: &Option<Scalar>,
    query: &JudgedQuery,
) -> Result<Items<Cond>, NoMemory>
    ensures { IfOk result (λ conds. conds ≡ spec.in_condition negated left.now (trees query.now)) }
{
    let mut conds = Items::new(alloc);
    if let (Some(left), Some(item)) = (left, query.items.get(0)) {
        let is_grouped = query.group.is_some();
        conds.push(item_condition(alloc, negated, left, is_grouped, item)?)?;
    }
    Ok(conds)
}

// The conditions of a subquery's join.
fn conditions(
    alloc: Global,
    negated: bool,
    left: &Option<Scalar>,
    query: &JudgedQuery,
) -> Result<Items<Cond>, NoMemory>
    ensures { IfOk result (λ conds. conds ≡ spec.in_condition negated left.now (trees query.now) ++ (trees query.now).outer) }
{
    let mut conds = in_condition(alloc, negated, left, query)?;
    conds.append(conds_copy(alloc, query.outer.as_slice())?)?;
    Ok(conds)
}

fn subquery_kind(negated: bool) -> JoinKind
    ensures { result ≡ spec.subquery_kind negated }
{
    if negated {
        JoinKind::Anti
    } else {
        JoinKind::Semi
    }
}

fn join(
    alloc: Global,
    kind: JoinKind,
    conds: Items<Cond>,
    left: Tree,
    right: Tree,
) -> Result<Tree, NoMemory>
    ensures { IfOk result (λ joined. joined ≡ tree.Join kind conds left right) }
{
    let left = Boxed::new(alloc, left)?;
    let right = Boxed::new(alloc, right)?;
    Ok(Tree::Join {
        kind,
        conds,
        left,
        right,
    })
}

/// The tree so far, joined with the tree of a subquery.
pub fn subquery_join(
    alloc: Global,
    negated: bool,
    left: &Option<Scalar>,
    query: &JudgedQuery,
    so_far: Tree,
    inner: Tree,
) -> Result<Tree, NoMemory>
    ensures { IfOk result (λ joined. joined ≡ tree.Join (spec.subquery_kind negated) (spec.in_condition negated left.now (trees query.now) ++ (trees query.now).outer) so_far inner) }
{
    let conds = conditions(alloc, negated, left, query)?;
    join(alloc, subquery_kind(negated), conds, so_far, inner)
}
