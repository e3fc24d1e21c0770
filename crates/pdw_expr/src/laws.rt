ghost use Rattle.std.specs.Prelude.{◌≡◌, ℕ, List, ◌↔◌, IsTrue};
ghost use Rattle.pdw_base.specs.Schema.{Env};
ghost use Rattle.pdw_base.specs.declared.schema.ColId.{ColId as Column};
ghost use Rattle.pdw_expr.specs.Columns.{cond_columns, scalar_columns};
ghost use Rattle.pdw_expr.specs.Cond.{truth_of};
ghost use Rattle.pdw_expr.specs.Env.{Agree, nulls, union};
ghost use Rattle.pdw_expr.specs.Like.{Matches, matches};
ghost use Rattle.pdw_expr.specs.Scalar.{value_of};
ghost use Rattle.pdw_expr.specs.declared.cond.Cond.{Cond as Condition};
ghost use Rattle.pdw_expr.specs.declared.scalar.Scalar.{Scalar as Expression};

/// The law of LIKE: a pattern matches a text exactly where the rules of SQL-92, 8.5 say so.
pub fn like_follows_its_rules()
    ensures { (pattern text : List ℕ) → IsTrue (matches pattern text) ↔ Matches pattern text }
{}

/// The value of an expression and the truth of a condition depend on the columns that they use, and on nothing else.
pub fn only_used_columns_count()
    ensures value { (e : Expression) (a b : Env) → Agree (scalar_columns e) a b → value_of e a ≡ value_of e b }
    ensures truth { (c : Condition) (a b : Env) → Agree (cond_columns c) a b → truth_of c a ≡ truth_of c b }
{}

/// The laws of environments side by side: NULLs add nothing, grouping does not matter,
/// and at columns that one side does not have, the union is the other.
pub fn union_keeps_both_sides()
    ensures padded { (a : Env) → union a nulls ≡ a }
    ensures padded_before { (a : Env) → union nulls a ≡ a }
    ensures grouped { (a b c : Env) → union (union a b) c ≡ union a (union b c) }
    ensures left { (columns : List Column) (a b : Env) → Agree columns b nulls → Agree columns (union a b) a }
    ensures right { (columns : List Column) (a b : Env) → Agree columns a nulls → Agree columns (union a b) b }
{}
