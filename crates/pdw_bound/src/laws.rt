//! Bound trees have memos.

ghost use Rattle.std.specs.Prelude.{◌≡◌, true};
ghost use Rattle.pdw_bind.specs.Bind.{bound};
ghost use Rattle.pdw_catalog.specs.Database.{Database};
ghost use Rattle.pdw_form.specs.Sound.{HaveColumns};
ghost use Rattle.pdw_form.specs.declared.judged.JudgedSelect.{JudgedSelect as Numbered};
ghost use Rattle.pdw_memo.specs.Memo.{IsPlannable};
ghost use Rattle.pdw_syntax.specs.Written.{query_written};
ghost use Rattle.pdw_syntax.specs.declared.query.Select.{Select as Written};
ghost use Rattle.pdw_syntax.specs.declared.statement.Statement.{Statement};
ghost use Rattle.pdw_walk.specs.Forms.{Judges};

/// Where the judgement accepts a statement that holds a SELECT, its tree is well-formed over the tables and has few enough
/// nodes for a memo. Tables have columns, as every appliance's have, and the SELECT is one that some text of the grammar means.
pub fn a_bound_tree_is_plannable()
    ensures { (database : Database) (x : Statement) (s : Written) (j : Numbered) → HaveColumns database.tables → query_written s.query ≡ true → Judges database.tables x s j → IsPlannable database.tables (bound j.query) }
{}
