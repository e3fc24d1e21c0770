//! The laws of every memo.

ghost use Rattle.std.specs.List.{AllByRecursion, slice_get};
ghost use Rattle.std.specs.Option.{option_map};
ghost use Rattle.std.specs.Prelude.{◌≡◌, ◌-◌, ℕ, List, Some, length};
ghost use Rattle.pdw_algebra.specs.Schema.{rising};
ghost use Rattle.pdw_algebra.specs.Shape.{columns_of};
ghost use Rattle.pdw_algebra.specs.Within.{AllWithin};
ghost use Rattle.pdw_base.specs.Schema.{Env};
ghost use Rattle.pdw_catalog.specs.Database.{Database};
ghost use Rattle.pdw_groups.specs.Meaning.{exactly};
ghost use Rattle.pdw_groups.specs.Memo.{AdmitsAt, Contents, EachExprStands};
ghost use Rattle.pdw_groups.specs.declared.group.Group.{Group as GroupIn};
ghost use Rattle.pdw_memo.specs.Laws.{HasApartSides, HasDifferentChildren, HasExpression, HasItsColumns, IsLight, MakesNoKey, OfEachExpr, ReadsItsTable, meanings_in};
ghost use Rattle.pdw_memo.specs.Memo.{IsMemo};

/// Each group of a memo has a meaning. Each of its expressions has children of smaller numbers and stands for the group: over
/// all tables, of all bags that its children admit it makes a bag that the group admits. The last group means the tree.
pub fn a_memo_means_its_tree()
    ensures each { (contents : Contents) (memo : IsMemo contents) → length (meanings_in contents memo) ≡ length contents.groups }
    ensures stands { (contents : Contents) (memo : IsMemo contents) (database : Database) → EachExprStands database (meanings_in contents memo) contents.groups }
    ensures root { (contents : Contents) (memo : IsMemo contents) → slice_get (meanings_in contents memo) (length contents.groups - 1) ≡ Some (exactly memo.tree) }
{}

/// Rows of a bag that a group admits have NULL outside its schema, its interesting columns are columns of the schema, and no
/// aggregate makes a key of its operator.
pub fn a_memo_names_its_columns()
    ensures rows { (contents : Contents) (memo : IsMemo contents) (database : Database) (number : ℕ) (group : GroupIn) → slice_get contents.groups number ≡ Some group → (bag : List Env) → AdmitsAt database (meanings_in contents memo) number bag → AllWithin group.schema bag }
    ensures interesting { (contents : Contents) → IsMemo contents → AllByRecursion HasItsColumns contents.groups }
    ensures keys { (contents : Contents) → IsMemo contents → AllByRecursion (λ group. AllByRecursion (λ expr. MakesNoKey expr.op) group.exprs) contents.groups }
{}

/// The last group of a memo has the schema of the tree: its columns with their kinds, by rising numbers.
pub fn a_memos_root_has_the_trees_columns()
    ensures { (contents : Contents) (memo : IsMemo contents) → option_map (λ (group : GroupIn). group.schema) (slice_get contents.groups (length contents.groups - 1)) ≡ Some (rising (columns_of memo.tables memo.tree)) }
{}

/// A join of a memo has two sides, which are groups whose schemas have no column number in common.
pub fn a_joins_sides_are_apart()
    ensures { (contents : Contents) → IsMemo contents → OfEachExpr contents.groups (λ expr. HasApartSides contents.groups expr.op expr.children) }
{}

/// A scan of a memo has no child and reads a table of the memo's catalogue: its rows are placed as the table's are, and the
/// columns that it reads have different numbers.
pub fn a_memos_scans_are_of_its_tables()
    ensures { (contents : Contents) (memo : IsMemo contents) → OfEachExpr contents.groups (λ expr. ReadsItsTable memo.tables expr.op expr.children) }
{}

/// No two expressions of a group have the same children, in their order.
pub fn expressions_of_a_group_differ()
    ensures { (contents : Contents) → IsMemo contents → AllByRecursion HasDifferentChildren contents.groups }
{}

/// Each group of a memo has a weight of at most 2 ^ 20, and each of its expressions weighs one more than its children together
/// and at most the group. So a plan of any group has at most 2 ^ 20 operators, and where no operator costs more than a bound, the
/// plan costs at most 2 ^ 20 times the bound.
pub fn memos_are_light()
    ensures { (contents : Contents) → IsMemo contents → IsLight contents.groups }
{}

/// Each group of a memo has at least one expression.
pub fn each_group_has_an_expression()
    ensures { (contents : Contents) → IsMemo contents → AllByRecursion HasExpression contents.groups }
{}
