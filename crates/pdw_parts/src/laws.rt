//! The laws of parts.

ghost use Rattle.std.specs.Prelude.{◌≡◌, ℕ, true, List, Some};
ghost use Rattle.std.specs.List.{filter, flat_map, list_all, slice_get};
ghost use Rattle.pdw_base.specs.SameBag.{SameBag};
ghost use Rattle.pdw_base.specs.Schema.{Env};
ghost use Rattle.pdw_expr.specs.Rows.{filtered, joined, products};
ghost use Rattle.pdw_expr.specs.declared.agg.JoinKind.TheVariants as kind;
ghost use Rattle.pdw_expr.specs.declared.cond.Cond.{Cond as Condition};
ghost use Rattle.pdw_parts.specs.Part.{AreDisjoint, AreLeaves, Leaf, LeafSet, between, either, every, is_inside, leaf_columns, leaf_rows, only, part_rows};

/// The join of two disjoint parts of a block is the part of both together: for all rows of the leaves, and all bags that
/// are those of the parts. It carries the conjuncts that lie inside both parts together and inside neither.
pub fn the_join_of_two_parts_is_the_part_of_both()
    ensures { (leaves : List Leaf) → AreLeaves leaves → (conds : List Condition) (left right : LeafSet) → AreDisjoint left right → (ls rs : List Env) → SameBag ls (part_rows left leaves conds) → SameBag rs (part_rows right leaves conds) → SameBag (joined kind.Inner (between left right (leaf_columns leaves) conds) ls rs) (part_rows (either left right) leaves conds) }
{}

/// A block whose conjuncts use the columns of its leaves is the part of all its leaves; and the part of one leaf is that
/// leaf, filtered by the conjuncts inside it.
pub fn a_block_is_the_part_of_all_its_leaves()
    ensures all { (leaves : List Leaf) (conds : List Condition) → list_all (is_inside (flat_map (λ columns. columns) (leaf_columns leaves))) conds ≡ true → part_rows every leaves conds ≡ filtered conds (products (leaf_rows leaves)) }
    ensures one { (leaves : List Leaf) (conds : List Condition) (n : ℕ) (leaf : Leaf) → slice_get leaves n ≡ Some leaf → part_rows (only n) leaves conds ≡ filtered (filter (is_inside leaf.columns) conds) leaf.rows }
{}
