//! What the parts of a query are by their words alone.

ghost use Rattle.std.specs.Prelude.{◌≡◌, IfOk, is_some};
ghost use Rattle.std.specs.List.{list_any};
ghost use Rattle.std.specs.Option.{option_copied};
ghost use Rattle.pdw_syntax.specs.declared.query.Query.{out-Query};
ghost use Rattle.pdw_walk.specs.Names as spec;

use crate::text::text_from;
use pdw_base::{NoMemory, Str};
use pdw_expr::Arith;
use pdw_syntax::{Item, Items, Query, SqlExpr};
use std::alloc::Global;

// Whether an aggregate stands in an expression.
#[cycle(aggregates)]
fn has_aggregate(value: &SqlExpr) -> bool
    ensures { result ≡ spec.has_aggregate value.now }
{
    match value {
        SqlExpr::Col(_) | SqlExpr::Number(_) | SqlExpr::Text(_) => false,
        SqlExpr::Signed { value, .. } => has_aggregate(value.get()),
        SqlExpr::Chain { first, rest } => {
            has_aggregate(first.get()) || links_have_aggregate(rest.as_slice())
        }
        SqlExpr::Agg { .. } => true,
        SqlExpr::Paren(inner) => has_aggregate(inner.get()),
    }
}

// Whether one stands in the operands of a chain.
#[cycle(aggregates)]
fn links_have_aggregate(links: &[(Arith, SqlExpr)]) -> bool
    ensures { result ≡ list_any (λ link. spec.has_aggregate link.1) links.now }
{
    for link in links {
        if has_aggregate(&link.1) {
            return true;
        }
    }
    false
}

fn item_has_aggregate(item: &Item) -> bool
    ensures { result ≡ spec.item_aggregates item.now }
{
    match item {
        Item::AliasStar(_) => false,
        Item::Made { value, .. } => has_aggregate(value),
    }
}

fn some_item_has_aggregate(items: &[Item]) -> bool
    ensures { result ≡ list_any spec.item_aggregates items.now }
{
    for item in items {
        if item_has_aggregate(item) {
            return true;
        }
    }
    false
}

fn items_have_aggregate(items: &Items) -> bool
    ensures { result ≡ spec.items_aggregate items.now }
{
    match items {
        Items::Star => false,
        Items::List(list) => some_item_has_aggregate(list.as_slice()),
    }
}

/// Whether a query is grouped: it has GROUP BY, HAVING, or an aggregate in an item.
pub fn is_grouped(query: &Query) -> bool
    ensures { result ≡ spec.is_grouped (out-Query query.now).group (is_some (out-Query query.now).having) (out-Query query.now).items }
{
    !query.group.as_slice().is_empty()
        || query.having.is_some()
        || items_have_aggregate(&query.items)
}

// The name of the column that an expression is by itself.
fn column_name(value: &SqlExpr) -> Option<&Str>
    ensures { option_copied result ≡ spec.column_name value.now }
{
    match value {
        SqlExpr::Col(column) => Some(&column.column),
        SqlExpr::Paren(inner) => column_name(inner.get()),
        _ => None,
    }
}

// The name of an output column that has none: by its position from 1.
fn numbered_name(alloc: Global, position: usize) -> Result<Str, NoMemory>
    ensures { IfOk result (λ name. name ≡ spec.numbered_name position) }
{
    let name = format!(in alloc; "col{position}")?;
    text_from(alloc, name.as_str())
}

/// The name of an output column: the written one, else that of a bare column, else one by the position from 1.
pub fn item_name(
    alloc: Global,
    value: &SqlExpr,
    name: &Option<Str>,
    position: usize,
) -> Result<Str, NoMemory>
    ensures { IfOk result (λ chosen. chosen ≡ spec.item_name value.now name.now position) }
{
    if let Some(written) = name {
        return written.try_copy(alloc);
    }
    match column_name(value) {
        Some(column) => column.try_copy(alloc),
        None => numbered_name(alloc, position),
    }
}
