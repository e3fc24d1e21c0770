//! Exploration of a memo.

ghost use Rattle.std.specs.Prelude.{◌≡◌, IfOk};
ghost use Rattle.pdw_algebra.specs.declared.tree.Tree.{Tree as TreeOf};
ghost use Rattle.pdw_catalog.specs.Catalog.{Tables};
ghost use Rattle.pdw_explore.specs.Explored.{IsInitial, explored_memo};
ghost use Rattle.pdw_groups.specs.Memo.{all_written, memo_of};
ghost use Rattle.pdw_memo.specs.Memo.{IsPlannable};

use crate::blocks::moved_blocks;
use crate::grown::grow_all;
use crate::levels::levels;
use crate::turned::turned;
use pdw_base::NoMemory;
use pdw_memo::Memo;
use std::alloc::Global;

/// Explores the joins of a memo whose blocks are joined as they are written, within a budget of join expressions. Blocks in
/// rising number take the first of Full and Linear whose joins fit what is left of the budget, or else stay as they are
/// written, which takes nothing of it. The new memo is that of the same tree at these levels.
pub fn explore(alloc: Global, memo: Memo, budget: u32) -> Result<Memo, NoMemory>
    requires { IsInitial memo }
    ensures { (tables : Tables) (tree : TreeOf) → IsPlannable tables tree → memo ≡ memo_of tables all_written tree → IfOk result (λ new. new ≡ explored_memo budget memo tables tree) }
{
    let (groups, blocks) = memo.into_parts();
    let levels = levels(alloc, budget, blocks.as_slice())?;
    let groups = turned(alloc, groups)?;
    let grown = grow_all(alloc, groups, blocks.as_slice(), levels.as_slice())?;
    let reversed = turned(alloc, blocks)?;
    let moved = moved_blocks(alloc, reversed, grown.numbers.as_slice(), levels.as_slice())?;
    Ok(Memo::from_parts(grown.groups, moved))
}
