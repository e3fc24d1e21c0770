//! Equal copies of the parts of operators.

ghost use Rattle.std.specs.Prelude.{◌≡◌, IfOk};

use pdw_base::{ColId, NoMemory};
use pdw_expr::{Agg, Cond, Scalar};
use sqlite_items::Items;
use std::alloc::Global;

/// Equal conditions.
pub fn conds_copy(alloc: Global, conds: &[Cond]) -> Result<Items<Cond>, NoMemory>
    ensures { IfOk result (λ copy. copy ≡ conds.now) }
{
    let mut copy = Items::new(alloc);
    for cond in conds {
        copy.push(cond.try_copy(alloc)?)?;
    }
    Ok(copy)
}

/// Equal aggregates.
pub fn aggs_copy(alloc: Global, aggs: &[Agg]) -> Result<Items<Agg>, NoMemory>
    ensures { IfOk result (λ copy. copy ≡ aggs.now) }
{
    let mut copy = Items::new(alloc);
    for agg in aggs {
        copy.push(agg.try_copy(alloc)?)?;
    }
    Ok(copy)
}

/// An equal expression, if there is one.
pub fn make_copy(alloc: Global, make: &Option<Scalar>) -> Result<Option<Scalar>, NoMemory>
    ensures { IfOk result (λ copy. copy ≡ make.now) }
{
    match make {
        Some(scalar) => Ok(Some(scalar.try_copy(alloc)?)),
        None => Ok(None),
    }
}

/// Equal items of a projection.
pub fn items_copy(
    alloc: Global,
    items: &[(ColId, Option<Scalar>)],
) -> Result<Items<(ColId, Option<Scalar>)>, NoMemory>
    ensures { IfOk result (λ copy. copy ≡ items.now) }
{
    let mut copy = Items::new(alloc);
    for item in items {
        copy.push((item.0, make_copy(alloc, &item.1)?))?;
    }
    Ok(copy)
}
