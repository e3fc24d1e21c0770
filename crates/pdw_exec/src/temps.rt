//! The rows of a temporary table at a node.

ghost use Rattle.std.specs.Prelude.{◌≡◌, [], IfOk, slice_index_or};
ghost use Rattle.pdw_algebra.specs.Local.{temporary as rows_of_temporary};
ghost use Rattle.pdw_exec.specs.Nodes.{FitTemporaries, temporaries};
ghost use Rattle.pdw_exec.specs.Relation.{Gives, rows_in};
ghost use Rattle.pdw_exec.specs.Shapes.{temporary_schema};
ghost use Rattle.pdw_move.specs.Placed as placed_spec;

use crate::relation::{Held, Relation};
use pdw_algebra::schema_over;
use pdw_base::{Bag, NoMemory, Node, Schema};
use pdw_move::Placed;
use sqlite_items::at;
use std::alloc::Global;

// The rows at a node, where they stand.
fn rows_at<'a>(alloc: Global, placed: &'a Placed, node: Node) -> Held<'a>
    ensures { rows_in result ≡ placed_spec.rows_at placed.now node }
{
    match node {
        Node::Compute(node) => match at(placed.nodes.as_slice(), node as usize) {
            Some(bag) => Held::Lent(bag),
            None => Held::Made(Bag::new(alloc)),
        },
        Node::Control => Held::Lent(&placed.control),
    }
}

// No columns and no rows.
fn nothing<'a>(alloc: Global) -> Result<Relation<'a>, NoMemory>
    ensures columns { IfOk result (λ found. found.columns ≡ []) }
    ensures rows { IfOk result (λ found. rows_in found.rows ≡ []) }
{
    let columns = schema_over(alloc, &[])?;
    Ok(Relation {
        columns,
        rows: Held::Made(Bag::new(alloc)),
    })
}

// These columns, and no rows.
fn no_rows<'a>(alloc: Global, schema: &Schema) -> Result<Relation<'a>, NoMemory>
    ensures columns { IfOk result (λ found. found.columns ≡ schema.now) }
    ensures rows { IfOk result (λ found. rows_in found.rows ≡ []) }
{
    let columns = schema.try_copy(alloc)?;
    Ok(Relation {
        columns,
        rows: Held::Made(Bag::new(alloc)),
    })
}

// These columns, and the rows at a node.
fn placed_rows<'a>(
    alloc: Global,
    placed: &'a Placed,
    schema: &Schema,
    node: Node,
) -> Result<Relation<'a>, NoMemory>
    ensures columns { IfOk result (λ found. found.columns ≡ schema.now) }
    ensures rows { IfOk result (λ found. rows_in found.rows ≡ placed_spec.rows_at placed.now node) }
{
    let columns = schema.try_copy(alloc)?;
    Ok(Relation {
        columns,
        rows: rows_at(alloc, placed, node),
    })
}

// The temporary table at a place, from 0.
fn table_at<'a>(
    alloc: Global,
    temps: &'a [Placed],
    schemas: &[Schema],
    place: usize,
    node: Node,
) -> Result<Relation<'a>, NoMemory>
    ensures { IfOk result (Gives (slice_index_or schemas.now place []) (slice_index_or (temporaries temps.now schemas.now node) place []) (FitTemporaries temps.now schemas.now node)) }
{
    match at(schemas, place) {
        Some(schema) => match at(temps, place) {
            Some(placed) => placed_rows(alloc, placed, schema, node),
            None => no_rows(alloc, schema),
        },
        None => nothing(alloc),
    }
}

/// The rows of a temporary table at a node; these are numbered from 1. They are not copied.
pub fn temporary<'a>(
    alloc: Global,
    id: u32,
    temps: &'a [Placed],
    schemas: &[Schema],
    node: Node,
) -> Result<Relation<'a>, NoMemory>
    ensures { IfOk result (Gives (temporary_schema schemas.now id) (rows_of_temporary (temporaries temps.now schemas.now node) id) (FitTemporaries temps.now schemas.now node)) }
{
    if id == 0 {
        return nothing(alloc);
    }
    table_at(alloc, temps, schemas, id as usize - 1, node)
}
