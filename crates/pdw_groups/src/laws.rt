//! The laws of memos.

ghost use Rattle.std.specs.List.{slice_get};
ghost use Rattle.std.specs.Prelude.{◌≡◌, ◌-◌, ℕ, Some, length};
ghost use Rattle.pdw_algebra.specs.WellFormed.{IsWellFormed};
ghost use Rattle.pdw_algebra.specs.declared.tree.Tree.{Tree as TreeOf};
ghost use Rattle.pdw_catalog.specs.Catalog.{Tables};
ghost use Rattle.pdw_catalog.specs.Database.{Database};
ghost use Rattle.pdw_groups.specs.Meaning.{exactly};
ghost use Rattle.pdw_groups.specs.Memo.{EachExprStands, meanings_of, memo_of};
ghost use Rattle.pdw_groups.specs.declared.block.Level.{Level as LevelOf};

/// In the memo of a well-formed tree, at any levels of its blocks, each expression has children of smaller numbers and stands
/// for its group: over all tables, of all bags that its children admit it makes a bag that the group admits. The last group
/// means the tree.
pub fn each_expression_stands_for_its_group()
    ensures stands { (tables : Tables) (levels : ℕ → LevelOf) (tree : TreeOf) → IsWellFormed tables tree → (database : Database) → EachExprStands database (meanings_of tables levels tree) (memo_of tables levels tree).groups }
    ensures root { (tables : Tables) (levels : ℕ → LevelOf) (tree : TreeOf) → IsWellFormed tables tree → slice_get (meanings_of tables levels tree) (length (memo_of tables levels tree).groups - 1) ≡ Some (exactly tree) }
{}
