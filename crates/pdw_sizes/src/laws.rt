//! The laws of sizes.

ghost use Rattle.std.specs.List.{AllByRecursion, slice_get};
ghost use Rattle.std.specs.Prelude.{◌≡◌, ℕ, ◌≤◌, Some};
ghost use Rattle.pdw_groups.specs.Meaning.{Meaning};
ghost use Rattle.pdw_groups.specs.Memo.{Contents};
ghost use Rattle.pdw_groups.specs.declared.group.Group.{Group as GroupIn};
ghost use Rattle.pdw_memo.specs.Laws.{meanings_in};
ghost use Rattle.pdw_memo.specs.Memo.{IsMemo};
ghost use Rattle.pdw_sizes.specs.Reading.{Reads};
ghost use Rattle.pdw_sizes.specs.Sizes.{IsSizeInRange, rows_of_meaning, schema_of_meaning, sizes_in};
ghost use Rattle.pdw_stats.specs.Book.{AreInRange, Book};

/// The law of sizes: by statistics that are in their ranges no group is reckoned to have more than 10^12 rows.
pub fn reckoned_rows_are_in_range()
    ensures { (book : Book) (n : ℕ) (means : Meaning) → AreInRange book → n ≤ 16 → rows_of_meaning book n means ≤ 1000000000000 }
{}

/// The size of each group of a memo is in its range, by statistics that are in theirs.
pub fn sizes_are_in_range()
    ensures { (contents : Contents) (memo : IsMemo contents) (book : Book) (n : ℕ) → AreInRange book → n ≤ 16 → AllByRecursion IsSizeInRange (sizes_in contents memo book n) }
{}

/// What a group of a memo means can be read from the memo, whatever joins were explored: of a set of a block's leaves from
/// the block, and of an operator from the first expression of its group. Children have smaller numbers. The group has the
/// schema of what it means.
pub fn each_group_reads_its_meaning()
    ensures schema { (contents : Contents) (memo : IsMemo contents) (number : ℕ) (group : GroupIn) (means : Meaning) → slice_get contents.groups number ≡ Some group → slice_get (meanings_in contents memo) number ≡ Some means → group.schema ≡ schema_of_meaning memo.tables means }
    ensures reads { (contents : Contents) (memo : IsMemo contents) (number : ℕ) (group : GroupIn) (means : Meaning) → slice_get contents.groups number ≡ Some group → slice_get (meanings_in contents memo) number ≡ Some means → Reads (meanings_in contents memo) number contents.blocks group.key group.schema group.exprs means }
{}
