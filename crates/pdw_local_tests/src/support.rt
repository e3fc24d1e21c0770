//! What the tests share: two temporary tables, and the text of a bag.

use pdw_algebra::{LocalTree, schema_over};
use pdw_base::{Bag, ColId, Kind, NoMemory, Node, NodeCount, Row, Schema, Value};
use pdw_catalog::Appliance;
use pdw_exec::run_local;
use pdw_move::Placed;
use sqlite_items::Items;
use std::alloc::Global;
use std::process::Abort;

/// A row of two columns; None is NULL.
pub type Pair = (Option<i64>, Option<i64>);

fn value(number: Option<i64>) -> Value {
    match number {
        Some(number) => Value::Int(number),
        None => Value::Null,
    }
}

fn bag(alloc: Global, pairs: &[Pair]) -> Result<Bag, NoMemory> {
    let mut bag = Bag::new(alloc);
    for pair in pairs {
        let mut values = Vec::with_capacity(alloc, 2)?;
        values.push(value(pair.0))?;
        values.push(value(pair.1))?;
        bag.push(Row::from_values(values))?;
    }
    Ok(bag)
}

// No row at the first node, these at the second, and those at the control node.
fn placed(alloc: Global, second: &[Pair], control: &[Pair]) -> Result<Placed, NoMemory> {
    let mut nodes = Items::new(alloc);
    nodes.push(Bag::new(alloc))?;
    nodes.push(bag(alloc, second)?)?;
    let control = bag(alloc, control)?;
    Ok(Placed { nodes, control })
}

fn temps(alloc: Global) -> Result<Vec<Placed>, NoMemory> {
    let mut temps = Vec::new(alloc);
    let left = [
        (Some(1), Some(10)),
        (Some(1), Some(11)),
        (None, Some(12)),
        (Some(2), Some(13)),
    ];
    temps.push(placed(alloc, &left, &[(Some(7), Some(8))])?)?;
    let right = [
        (Some(1), Some(20)),
        (Some(1), Some(21)),
        (None, Some(22)),
        (Some(3), Some(23)),
    ];
    temps.push(placed(alloc, &right, &[])?)?;
    Ok(temps)
}

fn schemas(alloc: Global) -> Result<Vec<Schema>, NoMemory> {
    let mut schemas = Vec::new(alloc);
    for first in [0, 2] {
        let columns = [(ColId(first), Kind::Int), (ColId(first + 1), Kind::Int)];
        schemas.push(schema_over(alloc, &columns)?)?;
    }
    Ok(schemas)
}

// ---- texts

fn cell_text(alloc: Global, value: &Value) -> Result<String, NoMemory> {
    match value {
        Value::Null => Ok(format!(in alloc; "N")?),
        Value::Int(number) => Ok(format!(in alloc; "{number}")?),
        Value::Wide(number) => Ok(format!(in alloc; "w{number}")?),
        Value::Text(_) => Ok(format!(in alloc; "text")?),
    }
}

fn row_text(alloc: Global, row: &Row) -> Result<String, NoMemory> {
    let mut text = String::new(alloc);
    for value in row.values() {
        if !text.is_empty() {
            text.push_str(",")?;
        }
        let cell = cell_text(alloc, value)?;
        text.push_str(cell.as_str())?;
    }
    Ok(text)
}

// The rows in the order of their texts.
fn bag_text(alloc: Global, bag: &Bag) -> Result<String, NoMemory> {
    let mut rows = Vec::new(alloc);
    for row in bag.rows() {
        rows.push(row_text(alloc, row)?)?;
    }
    rows.sort()?;
    let mut text = String::new(alloc);
    for row in &rows {
        if !text.is_empty() {
            text.push_str(" ")?;
        }
        text.push_str(row.as_str())?;
    }
    Ok(text)
}

/// Compares the rows of a tree at a node of an appliance without tables with these, given in the order of their texts.
pub fn check(
    rt: &impl Abort,
    alloc: Global,
    tree: &LocalTree,
    node: Node,
    wanted: &str,
) -> Result<(), NoMemory> {
    let appliance = Appliance::new(alloc, NodeCount::new(2).unwrap())?;
    let temps = temps(alloc)?;
    let schemas = schemas(alloc)?;
    let rows = run_local(
        alloc,
        tree,
        &appliance,
        temps.as_slice(),
        schemas.as_slice(),
        node,
    )?;
    let text = bag_text(alloc, &rows)?;
    assert_eq!(rt; text.as_str(), wanted);
    Ok(())
}
