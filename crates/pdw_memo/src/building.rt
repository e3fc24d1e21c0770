//! What is made so far of a memo.

ghost use Rattle.std.specs.Prelude.{◌≡◌, ◌<◌, ◌+◌, ◌-◌, ◌^◌, [], length, OnOk, IfOk};
ghost use Rattle.pdw_memo.specs.Building as spec;

use pdw_algebra::{Tree, columns_of, schema_over};
use pdw_base::{ColId, NoMemory, Schema};
use pdw_catalog::Catalog;
use pdw_groups::{BlockPart, Expr, Group, GroupId, GroupKey, group_with};
use sqlite_items::Items;
use std::alloc::Global;

/// The groups and the blocks so far, and how many operators other than blocks have their groups.
#[derive(Drop)]
pub struct Building {
    pub groups: Items<Group>,
    pub blocks: Items<BlockPart>,
    pub operators: u32,
}

impl Building {
    /// Nothing yet.
    pub fn new(alloc: Global) -> Building
        ensures { result ≡ record { groups = []; blocks = []; operators = 0 } }
    {
        Building {
            groups: Items::new(alloc),
            blocks: Items::new(alloc),
            operators: 0,
        }
    }

    /// The last group, which is the own group of the node that was added last.
    pub fn last_group(&self) -> GroupId
        requires some { 0 < length self.now.groups }
        requires few { length self.now.groups < 2 ^ 32 }
        ensures { result ≡ spec.last self.now }
    {
        GroupId((self.groups.len() - 1) as u32)
    }
}

/// The schema of a tree's own group.
pub fn tree_schema(alloc: Global, tree: &Tree, catalog: &Catalog) -> Result<Schema, NoMemory>
    ensures { IfOk result (λ schema. schema ≡ spec.schema_of_tree catalog.now tree.now) }
{
    let columns = columns_of(alloc, tree, catalog)?;
    schema_over(alloc, columns.as_slice())
}

/// Adds the group of an operator other than a block.
pub fn add_operator(
    alloc: Global,
    building: &mut Building,
    useful: &[ColId],
    schema: Schema,
    exprs: Items<Expr>,
) -> Result<(), NoMemory>
    requires { building.old.operators + 1 < 2 ^ 32 }
    ensures { OnOk result (building.new ≡ spec.with_operator useful.now schema exprs building.old) }
{
    let key = GroupKey::Whole(building.operators);
    let group = group_with(alloc, useful, key, schema, exprs)?;
    building.groups.push(group)?;
    building.operators += 1;
    Ok(())
}

/// Adds the group of the partial rows of the operator that comes next.
pub fn add_partial(
    alloc: Global,
    building: &mut Building,
    useful: &[ColId],
    schema: Schema,
    exprs: Items<Expr>,
) -> Result<(), NoMemory>
    ensures { OnOk result (building.new ≡ spec.with_partial useful.now schema exprs building.old) }
{
    let key = GroupKey::Partial(building.operators);
    let group = group_with(alloc, useful, key, schema, exprs)?;
    building.groups.push(group)?;
    Ok(())
}
