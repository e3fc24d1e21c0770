//! Laws of tokens and faults.

ghost use Rattle.std.specs.Prelude.{◌≡◌, ℕ, List};
ghost use Rattle.std.specs.Str.{IsUtf8};
ghost use Rattle.pdw_lex.specs.Fault.{IsFault};
ghost use Rattle.pdw_lex.specs.Lexes.{Lexes};
ghost use Rattle.pdw_lex.specs.declared.lex_error.LexError.{LexError as Fault};
ghost use Rattle.pdw_lex.specs.declared.lex_error.LexError.TheVariants.{Memory};
ghost use Rattle.pdw_lex.specs.declared.token.Token.{Token as TokenOf};

/// Bytes have at most one list of tokens.
pub fn tokens_are_unique()
    ensures { (at : ℕ) (bytes : List ℕ) (some others : List TokenOf) → Lexes at bytes some → Lexes at bytes others → some ≡ others }
{}

/// Bytes in UTF-8 that have tokens have no fault; memory can still be wanting.
pub fn tokens_have_no_fault()
    ensures { (bytes : List ℕ) (tokens : List TokenOf) (e : Fault) → IsUtf8 bytes → Lexes 0 bytes tokens → IsFault bytes e → e ≡ Memory }
{}

/// Bytes have at most one fault; memory can be wanting besides.
pub fn a_fault_is_unique()
    ensures { (bytes : List ℕ) (e f : Fault) → IsFault bytes e → IsFault bytes f → ¬ (e ≡ Memory) → ¬ (f ≡ Memory) → e ≡ f }
{}
