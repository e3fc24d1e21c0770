//! The law of what the grammar gives.

ghost use Rattle.std.specs.List.{list_all};
ghost use Rattle.std.specs.Prelude.{◌≡◌, ℕ, true, List, map};
ghost use Rattle.pdw_lex.specs.Lexes.{Lexes};
ghost use Rattle.pdw_lex.specs.declared.token.Token.{Token as TokenOf};
ghost use Rattle.pdw_syntax.specs.Texts.{parentheses, script, IsWritten};
ghost use Rattle.pdw_syntax.specs.Written.{statement_written};
ghost use Rattle.pdw_syntax.specs.declared.statement.Statement.{Statement as StatementOf};

/// What some text of the grammar means is complete: texts that are not too long, aggregates that have the argument that they
/// take, at least one element of FROM and one item, and a table with a column. So is each statement of a script.
pub fn what_is_written_is_complete()
    ensures statement { (x : StatementOf) → IsWritten x → statement_written x ≡ true }
    ensures script { (levels : ℕ) (bytes : List ℕ) (tokens : List TokenOf) (xs : List StatementOf) → Lexes 0 bytes tokens → script (parentheses levels) (map (λ t. t.lexeme) tokens) xs → list_all statement_written xs ≡ true }
{}
