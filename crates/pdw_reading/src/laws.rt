//! Laws of statements and faults.

ghost use Rattle.std.specs.Prelude.{◌≡◌, ℕ, List};
ghost use Rattle.pdw_syntax.specs.Texts.{IsText};
ghost use Rattle.pdw_syntax.specs.declared.statement.Statement.{Statement as StatementOf};
ghost use Rattle.pdw_lex.specs.declared.token.Lexeme.{Lexeme as LexemeOf};
ghost use Rattle.pdw_lex.specs.declared.token.Token.{Token as TokenOf};
ghost use Rattle.pdw_reading.specs.Fault.{IsFault};
ghost use Rattle.pdw_reading.specs.Spells.{Spells};
ghost use Rattle.pdw_reading.specs.Tokens.{lexemes};
ghost use Rattle.pdw_reading.specs.declared.parse_error.ParseError.{ParseError as FaultOf};
ghost use Rattle.pdw_reading.specs.declared.parse_error.ParseError.TheVariants.{Memory};

/// Lexemes mean at most one list of statements.
pub fn statements_are_unique()
    ensures { (text : List LexemeOf) (some others : List StatementOf) → IsText text some → IsText text others → some ≡ others }
{}

/// Tokens that spell statements have no fault; memory can still be wanting.
pub fn statements_have_no_fault()
    ensures { (tokens : List TokenOf) (end : ℕ) (statements : List StatementOf) (e : FaultOf) → Spells (lexemes tokens) statements → IsFault tokens end e → e ≡ Memory }
{}

/// Tokens have at most one fault; memory can be wanting besides.
pub fn a_fault_is_unique()
    ensures { (tokens : List TokenOf) (end : ℕ) (e f : FaultOf) → IsFault tokens end e → IsFault tokens end f → ¬ (e ≡ Memory) → ¬ (f ≡ Memory) → e ≡ f }
{}
