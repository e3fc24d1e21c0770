//! What the meanings of trees, forms and statements make of equal bags.

ghost use Rattle.pdw_algebra.specs.Meaning.{rows_of};
ghost use Rattle.pdw_algebra.specs.declared.tree.Tree.{Tree as Operators};
ghost use Rattle.pdw_base.specs.SameBag.{SameBag};
ghost use Rattle.pdw_base.specs.Schema.{Env};
ghost use Rattle.pdw_base.specs.declared.value.Value.{Value as Cell};
ghost use Rattle.pdw_catalog.specs.Database.{Database};
ghost use Rattle.pdw_form.specs.Numbered.{numbered, numbered_answer};
ghost use Rattle.pdw_form.specs.declared.judged.JudgedQuery.{JudgedQuery as Form};
ghost use Rattle.pdw_form.specs.declared.judged.JudgedSelect.{JudgedSelect as Numbered};
ghost use Rattle.pdw_same_rows.specs.SameRows.{SameRows};
ghost use Rattle.pdw_semantics.specs.Answer.{IsLawful, answer};
ghost use Rattle.pdw_syntax.specs.declared.query.Select.{Select as Written};
ghost use Rattle.pdw_syntax.specs.declared.statement.Statement.{Statement};
ghost use Rattle.pdw_walk.specs.Forms.{Judges};
ghost use Rattle.std.specs.Prelude.{List};

/// Over databases with the same tables and equal bags of rows for each name, the rows of a tree are equal bags, for every
/// tree; so are the rows of every numbered form within any row of an enclosing query, and those of its answer; and so are
/// the rows of a SELECT by its names, where the statement that holds it is accepted: an order of rows that is lawful over
/// the one is lawful over the other.
pub fn meanings_respect_equal_bags()
    ensures trees { (one other : Database) (t : Operators) → SameRows one other → SameBag (rows_of one t) (rows_of other t) }
    ensures forms { (one other : Database) (q : Form) (outer : Env) → SameRows one other → SameBag ((numbered one q).rows outer) ((numbered other q).rows outer) }
    ensures numbered_answers { (one other : Database) (j : Numbered) → SameRows one other → SameBag (numbered_answer one j) (numbered_answer other j) }
    ensures answers { (one other : Database) (x : Statement) (s : Written) (j : Numbered) → SameRows one other → Judges one.tables x s j → SameBag (answer one s) (answer other s) }
    ensures lawful { (one other : Database) (x : Statement) (s : Written) (j : Numbered) (rows : List (List Cell)) → SameRows one other → Judges one.tables x s j → IsLawful one s rows → IsLawful other s rows }
{}
