//! What the elements of FROM add to the block of a query: SQL-92, 7.4 and 7.5.

ghost use Rattle.std.specs.Prelude.{◌≡◌, [], ◌++◌, IfOk};
ghost use Rattle.pdw_algebra.specs.declared.tree.Tree.TheVariants as tree;
ghost use Rattle.pdw_bind.specs.Bind as spec;

use pdw_algebra::Tree;
use pdw_base::{ColId, NoMemory, Str};
use pdw_expr::{Cond, JoinKind};
use pdw_syntax::JoinWord;
use sqlite_items::{Boxed, Items};
use std::alloc::Global;
use std::marker::Model;

/// What an element of FROM adds to the block of its query.
#[derive(Drop)]
pub struct Part {
    pub leaves: Items<Tree>,
    pub conds: Items<Cond>,
}

impl Model for Part {
    ghost use Rattle.std.specs.Coded.{codes};
    ghost use Rattle.pdw_algebra.specs.contracts.tree.Tree as of_tree;
    ghost use Rattle.pdw_expr.specs.contracts.cond.Cond as of_cond;
    ghost use Rattle.pdw_bind.specs.Bind.{Part as Adds};

    ghost Value = { Adds };

    ghost coded = { Prim.hlevel (codes, of_tree.the_row.coded, of_cond.the_row.coded) };

    ghost view = { λ part. record { leaves = part.leaves; conds = part.conds } };
}

/// No leaf and no conjunct.
pub fn no_part(alloc: Global) -> Part
    ensures { result ≡ spec.all_parts [] }
{
    Part {
        leaves: Items::new(alloc),
        conds: Items::new(alloc),
    }
}

/// One leaf.
pub fn leaf(alloc: Global, tree: Tree) -> Result<Part, NoMemory>
    ensures { IfOk result (λ part. part ≡ spec.leaf tree) }
{
    let mut leaves = Items::new(alloc);
    leaves.push(tree)?;
    Ok(Part {
        leaves,
        conds: Items::new(alloc),
    })
}

/// The rows of a table.
pub fn scan(
    alloc: Global,
    table: &Str,
    alias: &Str,
    cols: &[(ColId, u32)],
) -> Result<Part, NoMemory>
    ensures { IfOk result (λ part. part ≡ spec.leaf (tree.Scan table.now alias.now cols.now)) }
{
    let table = table.try_copy(alloc)?;
    let alias = alias.try_copy(alloc)?;
    let cols = Items::from_slice(alloc, cols)?;
    leaf(alloc, Tree::Scan { table, alias, cols })
}

/// One leaf without a conjunct as itself, anything else as a block.
pub fn unit_of(part: Part) -> Tree
    ensures { result ≡ spec.unit_of part }
{
    let Part { mut leaves, conds } = part;
    if leaves.len() == 1 && conds.is_empty() {
        return leaves.remove(0);
    }
    Tree::Block { leaves, conds }
}

/// The leaves of both sides, and the conjuncts of both sides before these.
pub fn together(left: Part, right: Part, on: Items<Cond>) -> Result<Part, NoMemory>
    ensures { IfOk result (λ part. part ≡ spec.together left right on) }
{
    let Part {
        mut leaves,
        mut conds,
    } = left;
    let Part {
        leaves: right_leaves,
        conds: right_conds,
    } = right;
    leaves.append(right_leaves)?;
    conds.append(right_conds)?;
    conds.append(on)?;
    Ok(Part { leaves, conds })
}

fn outer_join(
    alloc: Global,
    kind: JoinKind,
    on: Items<Cond>,
    left: Part,
    right: Part,
) -> Result<Part, NoMemory>
    ensures { IfOk result (λ part. part ≡ spec.outer_join kind on left right) }
{
    let left = Boxed::new(alloc, unit_of(left))?;
    let right = Boxed::new(alloc, unit_of(right))?;
    let join = Tree::Join {
        kind,
        conds: on,
        left,
        right,
    };
    leaf(alloc, join)
}

/// A join: the leaves side by side, or one leaf where rows may stand alone.
pub fn joined(
    alloc: Global,
    word: JoinWord,
    left: Part,
    right: Part,
    on: Items<Cond>,
) -> Result<Part, NoMemory>
    ensures { IfOk result (λ part. part ≡ spec.joined word left right on) }
{
    match word {
        JoinWord::Cross => together(left, right, on),
        JoinWord::Inner => together(left, right, on),
        JoinWord::Left => outer_join(alloc, JoinKind::Left, on, left, right),
        JoinWord::Right => outer_join(alloc, JoinKind::Left, on, right, left),
        JoinWord::Full => outer_join(alloc, JoinKind::Full, on, left, right),
    }
}

/// The block of FROM with the plain conjuncts of WHERE.
pub fn block(all: Part, plain: Items<Cond>) -> Result<Tree, NoMemory>
    ensures { IfOk result (λ tree. tree ≡ spec.unit_of (record { leaves = all.leaves; conds = all.conds ++ plain })) }
{
    let Part { leaves, mut conds } = all;
    conds.append(plain)?;
    Ok(unit_of(Part { leaves, conds }))
}
