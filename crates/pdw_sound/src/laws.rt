//! Laws of trees and of the forms that they come from.

ghost use Rattle.pdw_algebra.specs.Meaning.{rows_of};
ghost use Rattle.pdw_algebra.specs.Shape.{shape_of};
ghost use Rattle.pdw_algebra.specs.WellFormed.{IsWellFormed};
ghost use Rattle.pdw_syntax.specs.declared.query.Select.{Select as Written};
ghost use Rattle.pdw_syntax.specs.declared.statement.Statement.{Statement};
ghost use Rattle.pdw_syntax.specs.declared.statement.Statement.TheVariants as statement;
ghost use Rattle.pdw_bind.specs.Bind.{bound};
ghost use Rattle.pdw_bind.specs.Nodes.{nodes, operators};
ghost use Rattle.pdw_form.specs.Counts.{queries, references};
ghost use Rattle.pdw_form.specs.Sound.{HaveColumns, IsSound};
ghost use Rattle.pdw_syntax.specs.Written.{query_written};
ghost use Rattle.pdw_catalog.specs.Catalog.{Tables as AllTables};
ghost use Rattle.pdw_catalog.specs.Database.{Database};
ghost use Rattle.pdw_expr.specs.Rows.{key_of};
ghost use Rattle.pdw_semantics.specs.Answer.{answer};
ghost use Rattle.pdw_form.specs.Numbered.{outs_of};
ghost use Rattle.pdw_walk.specs.Forms.{Judges};
ghost use Rattle.pdw_walk.specs.Statements.{judgement};
ghost use Rattle.pdw_walk.specs.declared.fault.TheConstants.{MOST_QUERIES, MOST_REFERENCES, MOST_USED};
ghost use Rattle.pdw_form.specs.declared.judged.Judged.TheVariants as judged;
ghost use Rattle.pdw_form.specs.declared.judged.JudgedQuery.{out-JudgedQuery};
ghost use Rattle.pdw_form.specs.declared.judged.JudgedSelect.{JudgedSelect as Numbered};
ghost use Rattle.std.specs.List.{AllByRecursion};
ghost use Rattle.std.specs.Prelude.{◌≡◌, ◌*◌, ◌≤◌, ◌<◌, true, Ok, map};

/// The law of the tree: where the judgement gives a SELECT its numbered form, that form is sound, its tree is well-formed
/// over the tables, and the tree's rows, each read in the order of the items, are the rows of the SELECT, as lists.
/// Tables have columns, as every appliance's have, and the SELECT is one that some text of the grammar means. It holds of
/// each statement that holds a SELECT: SELECT itself, EXPLAIN, EXPLAIN JSON, PROFILE and CHECK PLAN.
pub fn the_tree_means_its_query()
    ensures held_sound { (database : Database) (x : Statement) (s : Written) (j : Numbered) → HaveColumns database.tables → query_written s.query ≡ true → Judges database.tables x s j → IsSound database.tables j.query }
    ensures held_well_formed { (database : Database) (x : Statement) (s : Written) (j : Numbered) → HaveColumns database.tables → query_written s.query ≡ true → Judges database.tables x s j → IsWellFormed database.tables (bound j.query) }
    ensures held_rows { (database : Database) (x : Statement) (s : Written) (j : Numbered) → HaveColumns database.tables → query_written s.query ≡ true → Judges database.tables x s j → map (key_of (outs_of (out-JudgedQuery j.query).items)) (rows_of database (bound j.query)) ≡ answer database s }
    ensures sound { (database : Database) (s : Written) (j : Numbered) → HaveColumns database.tables → query_written s.query ≡ true → judgement database.tables (statement.Select s) ≡ Ok (judged.Select j) → IsSound database.tables j.query }
    ensures well_formed { (database : Database) (s : Written) (j : Numbered) → HaveColumns database.tables → query_written s.query ≡ true → judgement database.tables (statement.Select s) ≡ Ok (judged.Select j) → IsWellFormed database.tables (bound j.query) }
    ensures rows { (database : Database) (s : Written) (j : Numbered) → HaveColumns database.tables → query_written s.query ≡ true → judgement database.tables (statement.Select s) ≡ Ok (judged.Select j) → map (key_of (outs_of (out-JudgedQuery j.query).items)) (rows_of database (bound j.query)) ≡ answer database s }
{}

/// A statement that is accepted has at most 10 table references and 64 queries, and its tree makes no column of a number of 128
/// or more.
pub fn a_statement_keeps_its_limits()
    ensures references { (tables : AllTables) (x : Statement) (s : Written) (j : Numbered) → Judges tables x s j → references j.query ≤ MOST_REFERENCES }
    ensures queries { (tables : AllTables) (x : Statement) (s : Written) (j : Numbered) → Judges tables x s j → queries j.query ≤ MOST_QUERIES }
    ensures columns { (database : Database) (x : Statement) (s : Written) (j : Numbered) → HaveColumns database.tables → query_written s.query ≡ true → Judges database.tables x s j → AllByRecursion (λ c. c.0 < MOST_USED) (shape_of database.tables (bound j.query)).made }
{}

/// The tree of a statement that is accepted has at most 10 scans, 82 leaves of blocks and 9 joins, and for each query at
/// most one filter, one projection and two nodes of groups. So a plan needs at most 485 operators for it, with a filter for
/// each leaf and two operators for each node of groups; with at most four moves and free changes above each these are at
/// most 2,425 nodes.
pub fn a_judged_tree_has_few_nodes()
    ensures scans { (tables : AllTables) (x : Statement) (s : Written) (j : Numbered) → Judges tables x s j → (nodes (bound j.query)).scans ≤ 10 }
    ensures filters { (tables : AllTables) (x : Statement) (s : Written) (j : Numbered) → Judges tables x s j → (nodes (bound j.query)).filters ≤ 64 }
    ensures projections { (tables : AllTables) (x : Statement) (s : Written) (j : Numbered) → Judges tables x s j → (nodes (bound j.query)).projections ≤ 64 }
    ensures groups { (tables : AllTables) (x : Statement) (s : Written) (j : Numbered) → Judges tables x s j → (nodes (bound j.query)).groups ≤ 128 }
    ensures joins { (database : Database) (x : Statement) (s : Written) (j : Numbered) → HaveColumns database.tables → query_written s.query ≡ true → Judges database.tables x s j → (nodes (bound j.query)).joins ≤ 9 }
    ensures leaves { (database : Database) (x : Statement) (s : Written) (j : Numbered) → HaveColumns database.tables → query_written s.query ≡ true → Judges database.tables x s j → (nodes (bound j.query)).leaves ≤ 82 }
    ensures operators { (database : Database) (x : Statement) (s : Written) (j : Numbered) → HaveColumns database.tables → query_written s.query ≡ true → Judges database.tables x s j → operators (nodes (bound j.query)) ≤ 485 }
    ensures plan { (database : Database) (x : Statement) (s : Written) (j : Numbered) → HaveColumns database.tables → query_written s.query ≡ true → Judges database.tables x s j → 5 * operators (nodes (bound j.query)) ≤ 2425 }
{}
