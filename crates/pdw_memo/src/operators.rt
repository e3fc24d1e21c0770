//! What operators other than blocks add after their children.

ghost use Rattle.std.specs.Prelude.{◌≡◌, ◌<◌, ◌∷◌, [], length, OnOk};
ghost use Rattle.pdw_catalog.specs.Catalog.{table_named};
ghost use Rattle.pdw_groups.specs.Columns as columns;
ghost use Rattle.pdw_groups.specs.declared.op.Op.TheVariants as op;
ghost use Rattle.pdw_memo.specs.Building as spec;

use crate::building::{Building, add_operator, add_partial, tree_schema};
use crate::exprs::{filter_expr, grouping_exprs, join_expr, partial_expr, project_expr, scan_expr};
use crate::partial::partial_schema;
use pdw_algebra::Tree;
use pdw_base::{ColId, NoMemory, Str};
use pdw_catalog::Catalog;
use pdw_expr::{Agg, Cond, JoinKind, Scalar};
use pdw_groups::GroupId;
use std::alloc::Global;

/// Adds the scan of a table.
pub fn add_scan(
    alloc: Global,
    building: &mut Building,
    useful: &[ColId],
    tree: &Tree,
    table: &Str,
    alias: &Str,
    cols: &[(ColId, u32)],
    catalog: &Catalog,
) -> Result<(), NoMemory>
    requires { spec.HasRoom building.old 1 }
    ensures { OnOk result (building.new ≡ spec.with_operator useful.now (spec.schema_of_tree catalog.now tree.now) (record { op = op.Scan table.now alias.now cols.now (columns.hash_in (table_named table.now catalog.now) cols.now) (columns.replicated_in (table_named table.now catalog.now)); children = [] } ∷ []) building.old) }
{
    let schema = tree_schema(alloc, tree, catalog)?;
    let exprs = scan_expr(alloc, table, alias, cols, catalog)?;
    add_operator(alloc, building, useful, schema, exprs)
}

/// Adds the filter of the last group.
pub fn add_filter(
    alloc: Global,
    building: &mut Building,
    useful: &[ColId],
    tree: &Tree,
    conds: &[Cond],
    catalog: &Catalog,
) -> Result<(), NoMemory>
    requires some { 0 < length building.old.groups }
    requires room { spec.HasRoom building.old 1 }
    ensures { OnOk result (building.new ≡ spec.with_operator useful.now (spec.schema_of_tree catalog.now tree.now) (record { op = op.Filter conds.now; children = spec.last building.old ∷ [] } ∷ []) building.old) }
{
    let schema = tree_schema(alloc, tree, catalog)?;
    let exprs = filter_expr(alloc, conds, building.last_group())?;
    add_operator(alloc, building, useful, schema, exprs)
}

/// Adds the projection of the last group.
pub fn add_project(
    alloc: Global,
    building: &mut Building,
    useful: &[ColId],
    tree: &Tree,
    items: &[(ColId, Option<Scalar>)],
    catalog: &Catalog,
) -> Result<(), NoMemory>
    requires some { 0 < length building.old.groups }
    requires room { spec.HasRoom building.old 1 }
    ensures { OnOk result (building.new ≡ spec.with_operator useful.now (spec.schema_of_tree catalog.now tree.now) (record { op = op.Project items.now; children = spec.last building.old ∷ [] } ∷ []) building.old) }
{
    let schema = tree_schema(alloc, tree, catalog)?;
    let exprs = project_expr(alloc, items, building.last_group())?;
    add_operator(alloc, building, useful, schema, exprs)
}

/// Adds the join of a group and of the last one.
pub fn add_join(
    alloc: Global,
    building: &mut Building,
    useful: &[ColId],
    tree: &Tree,
    kind: JoinKind,
    conds: &[Cond],
    left: GroupId,
    catalog: &Catalog,
) -> Result<(), NoMemory>
    requires some { 0 < length building.old.groups }
    requires room { spec.HasRoom building.old 1 }
    ensures { OnOk result (building.new ≡ spec.with_operator useful.now (spec.schema_of_tree catalog.now tree.now) (record { op = op.Join kind conds.now; children = left ∷ spec.last building.old ∷ [] } ∷ []) building.old) }
{
    let schema = tree_schema(alloc, tree, catalog)?;
    let exprs = join_expr(alloc, kind, conds, left, building.last_group())?;
    add_operator(alloc, building, useful, schema, exprs)
}

// Adds the partial rows of the last group, which is a tree's own.
fn add_partial_rows(
    alloc: Global,
    building: &mut Building,
    useful: &[ColId],
    keys: &[ColId],
    aggs: &[Agg],
    child: &Tree,
    catalog: &Catalog,
) -> Result<(), NoMemory>
    requires some { 0 < length building.old.groups }
    requires room { spec.HasRoom building.old 1 }
    ensures { OnOk result (building.new ≡ spec.with_partial useful.now (columns.partial_schema keys.now aggs.now (spec.schema_of_tree catalog.now child.now)) (record { op = op.Partial keys.now aggs.now; children = spec.last building.old ∷ [] } ∷ []) building.old) }
{
    let input = tree_schema(alloc, child, catalog)?;
    let schema = partial_schema(alloc, keys, aggs, input.cols())?;
    let exprs = partial_expr(alloc, keys, aggs, building.last_group())?;
    add_partial(alloc, building, useful, schema, exprs)
}

/// Adds the grouping of the last group, after that of the partial rows.
pub fn add_grouping(
    alloc: Global,
    building: &mut Building,
    useful: &[ColId],
    tree: &Tree,
    keys: &[ColId],
    aggs: &[Agg],
    child: &Tree,
    catalog: &Catalog,
) -> Result<(), NoMemory>
    requires some { 0 < length building.old.groups }
    requires room { spec.HasRoom building.old 1 }
    ensures { OnOk result (building.new ≡ spec.with_grouping catalog.now useful.now tree.now keys.now aggs.now child.now building.old) }
{
    let rows = building.last_group();
    add_partial_rows(alloc, building, useful, keys, aggs, child, catalog)?;
    let schema = tree_schema(alloc, tree, catalog)?;
    let exprs = grouping_exprs(alloc, keys, aggs, rows, building.last_group())?;
    add_operator(alloc, building, useful, schema, exprs)
}
