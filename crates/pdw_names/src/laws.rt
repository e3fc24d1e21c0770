ghost use Rattle.std.specs.Prelude.{◌≡◌, Ok, map};
ghost use Rattle.pdw_syntax.specs.declared.query.Select.{Select as Written};
ghost use Rattle.pdw_syntax.specs.declared.statement.Statement.{Statement};
ghost use Rattle.pdw_syntax.specs.declared.statement.Statement.TheVariants as statement;
ghost use Rattle.pdw_catalog.specs.Database.{Database};
ghost use Rattle.pdw_semantics.specs.Answer.{answer, order_of};
ghost use Rattle.pdw_form.specs.Numbered.{numbered_answer};
ghost use Rattle.pdw_semantics.specs.Queries.{query};
ghost use Rattle.pdw_walk.specs.Forms.{Judges};
ghost use Rattle.pdw_walk.specs.Statements.{judgement};
ghost use Rattle.pdw_form.specs.declared.judged.Judged.TheVariants as judged;
ghost use Rattle.pdw_form.specs.declared.judged.JudgedQuery.{out-JudgedQuery};
ghost use Rattle.pdw_form.specs.declared.judged.JudgedSelect.{JudgedSelect as Numbered};

/// The law of names and numbers: over all tables, the rows of a SELECT by its names are those of the numbered form that
/// the judgement gives it; so are its output names, and the keys of its ORDER BY. It holds of each statement that holds a
/// SELECT: SELECT itself, EXPLAIN, EXPLAIN JSON, PROFILE and CHECK PLAN.
pub fn names_are_numbers()
    ensures held_rows { (database : Database) (x : Statement) (s : Written) (j : Numbered) → Judges database.tables x s j → answer database s ≡ numbered_answer database j }
    ensures held_names { (database : Database) (x : Statement) (s : Written) (j : Numbered) → Judges database.tables x s j → map (λ item. item.name) (out-JudgedQuery j.query).items ≡ (query database s.query).names }
    ensures held_order { (database : Database) (x : Statement) (s : Written) (j : Numbered) → Judges database.tables x s j → j.order ≡ order_of (query database s.query).names s.order }
    ensures rows { (database : Database) (s : Written) (j : Numbered) → judgement database.tables (statement.Select s) ≡ Ok (judged.Select j) → answer database s ≡ numbered_answer database j }
    ensures names { (database : Database) (s : Written) (j : Numbered) → judgement database.tables (statement.Select s) ≡ Ok (judged.Select j) → map (λ item. item.name) (out-JudgedQuery j.query).items ≡ (query database s.query).names }
    ensures order { (database : Database) (s : Written) (j : Numbered) → judgement database.tables (statement.Select s) ≡ Ok (judged.Select j) → j.order ≡ order_of (query database s.query).names s.order }
{}
