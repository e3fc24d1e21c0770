//! The value of an expression over a group.

ghost use Rattle.std.specs.Prelude.{◌≡◌, IfOk, map};
ghost use Rattle.std.specs.Option.{option_map};
ghost use Rattle.pdw_semantics.specs.Environment.{alone, group_of};
ghost use Rattle.pdw_semantics.specs.Exprs as spec;

use crate::environment::looked_up;
use crate::scope::Scope;
use crate::values::{computed_value, signed};
use pdw_base::{NoMemory, Value};
use pdw_expr::aggregated;
use pdw_syntax::SqlExpr;
use sqlite_items::{Boxed, Items as ListOf};
use std::alloc::Global;
use std::slice;

/// The value of an expression over the rows of a group, within the scopes that enclose the query: SQL-92, 6.11 to 6.14.
#[cycle(value)]
pub fn value_of(
    alloc: Global,
    value: &SqlExpr,
    rows: &[Scope],
    outers: &[Scope],
) -> Result<Value, NoMemory>
    ensures { IfOk result (λ found. found ≡ spec.value_of value.now (group_of rows.now outers.now)) }
{
    match value {
        SqlExpr::Col(reference) => looked_up(alloc, reference, rows, outers),
        SqlExpr::Number(number) => Ok(Value::Int(*number)),
        SqlExpr::Text(text) => Ok(Value::Text(text.try_copy(alloc)?)),
        SqlExpr::Signed { minus, value } => {
            let operand = value_of(alloc, value.get(), rows, outers)?;
            signed(alloc, *minus, operand)
        }
        SqlExpr::Chain { first, rest } => {
            let mut value = value_of(alloc, first.get(), rows, outers)?;
            for link in rest.as_slice() {
                let operand = value_of(alloc, &link.1, rows, outers)?;
                value = computed_value(alloc, link.0, &value, &operand)?;
            }
            Ok(value)
        }
        SqlExpr::Agg { kind, arg } => {
            let values = arguments(alloc, arg, rows, outers)?;
            aggregated(alloc, *kind, values.as_slice())
        }
        SqlExpr::Paren(inner) => value_of(alloc, inner.get(), rows, outers),
    }
}

// The argument of an aggregate in one row; COUNT of `*` has none.
#[cycle(value)]
fn argument(
    alloc: Global,
    arg: &Option<Boxed<SqlExpr>>,
    row: &[Scope],
    outers: &[Scope],
) -> Result<Value, NoMemory>
    ensures { IfOk result (λ found. found ≡ spec.argument (option_map spec.value_of arg.now) (group_of row.now outers.now)) }
{
    match arg {
        Some(value) => value_of(alloc, value.get(), row, outers),
        None => Ok(Value::Null),
    }
}

// The argument of an aggregate in each row.
#[cycle(value)]
fn arguments(
    alloc: Global,
    arg: &Option<Boxed<SqlExpr>>,
    rows: &[Scope],
    outers: &[Scope],
) -> Result<ListOf<Value>, NoMemory>
    ensures { IfOk result (λ values. values ≡ map (λ row. spec.argument (option_map spec.value_of arg.now) (alone outers.now row)) rows.now) }
{
    let mut values = ListOf::new(alloc);
    for row in rows {
        values.push(argument(alloc, arg, slice::from_ref(row), outers)?)?;
    }
    Ok(values)
}
