//! How many joins a block has.

ghost use Rattle.std.specs.List.{slice_get};
ghost use Rattle.std.specs.Prelude.{◌≡◌, ℕ, Some, length};
ghost use Rattle.pdw_explore.specs.Levels.{level_count};
ghost use Rattle.pdw_groups.specs.Memo.{Contents};
ghost use Rattle.pdw_groups.specs.declared.block.BlockPart.{BlockPart as Block};
ghost use Rattle.pdw_memo.specs.Memo.{IsMemo, join_count};

/// In every memo a block has as many joins as the formula of its level says, for every number of leaves.
pub fn a_block_has_the_joins_of_its_level()
    ensures { (contents : Contents) → IsMemo contents → (block : ℕ) (part : Block) → slice_get contents.blocks block ≡ Some part → join_count block contents.groups ≡ level_count part.level (length part.leaves) }
{}
