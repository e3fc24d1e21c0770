//! A text that grows by tokens, one space between each two.

ghost use Rattle.std.specs.Prelude.{◌≡◌, ◌++◌, [], true, false, codes, if◌then◌else◌, OnOk};
ghost use Rattle.std.specs.Fmt.{signed_decimal};
ghost use Rattle.pdw_ast.specs.Puts.{put};
ghost use Rattle.pdw_ast.specs.Written as spec;
ghost use Rattle.pdw_lex.specs.Piece.{doubled, quoted};

use itoa::Buffer;
use pdw_base::{NoMemory, Str};
use pdw_lex::Keyword;
use std::alloc::Global;
use std::marker::Model;

/// A text, and whether it has a token.
#[derive(Drop)]
pub struct Words {
    text: Vec<u8>,
    begun: bool,
}

impl Model for Words {
    ghost use Rattle.std.specs.Prelude.{ℕ, Bool, List};

    ghost Value = { List ℕ × Bool };

    ghost view = { λ words. (words.text.items, words.begun) };
}

// The keyword in upper case.
fn keyword_text(keyword: Keyword) -> &'static str
    ensures { result.now ≡ spec.keyword_text keyword }
{
    match keyword {
        Keyword::KwAll => "ALL",
        Keyword::KwAnd => "AND",
        Keyword::KwAs => "AS",
        Keyword::KwAsc => "ASC",
        Keyword::KwBetween => "BETWEEN",
        Keyword::KwBy => "BY",
        Keyword::KwCount => "COUNT",
        Keyword::KwCreate => "CREATE",
        Keyword::KwCross => "CROSS",
        Keyword::KwDesc => "DESC",
        Keyword::KwDistinct => "DISTINCT",
        Keyword::KwDrop => "DROP",
        Keyword::KwExcept => "EXCEPT",
        Keyword::KwExists => "EXISTS",
        Keyword::KwFalse => "FALSE",
        Keyword::KwFrom => "FROM",
        Keyword::KwFull => "FULL",
        Keyword::KwGroup => "GROUP",
        Keyword::KwHaving => "HAVING",
        Keyword::KwIn => "IN",
        Keyword::KwInner => "INNER",
        Keyword::KwIntersect => "INTERSECT",
        Keyword::KwIs => "IS",
        Keyword::KwJoin => "JOIN",
        Keyword::KwLeft => "LEFT",
        Keyword::KwLike => "LIKE",
        Keyword::KwMax => "MAX",
        Keyword::KwMin => "MIN",
        Keyword::KwNot => "NOT",
        Keyword::KwNull => "NULL",
        Keyword::KwOn => "ON",
        Keyword::KwOr => "OR",
        Keyword::KwOrder => "ORDER",
        Keyword::KwOuter => "OUTER",
        Keyword::KwRight => "RIGHT",
        Keyword::KwSelect => "SELECT",
        Keyword::KwSet => "SET",
        Keyword::KwSum => "SUM",
        Keyword::KwTable => "TABLE",
        Keyword::KwTrue => "TRUE",
        Keyword::KwUnion => "UNION",
        Keyword::KwUnknown => "UNKNOWN",
        Keyword::KwUpdate => "UPDATE",
        Keyword::KwWhere => "WHERE",
        Keyword::KwWith => "WITH",
    }
}

// Adds the bytes with each quote among them written twice.
fn push_doubled(text: &mut Vec<u8>, bytes: &[u8]) -> Result<(), NoMemory>
    ensures { OnOk result (text.new.items ≡ text.old.items ++ doubled bytes.now) }
{
    for byte in bytes {
        if *byte == b'\'' {
            text.push(b'\'')?;
        }
        text.push(*byte)?;
    }
    Ok(())
}

impl Words {
    /// No token yet.
    pub fn new(alloc: Global) -> Words
        ensures { result ≡ ([], false) }
    {
        Words {
            text: Vec::new(alloc),
            begun: false,
        }
    }

    // Adds the space before a token that is not the first.
    fn begin(&mut self) -> Result<(), NoMemory>
        ensures { OnOk result (self.new ≡ ((if self.old.1 then self.old.0 ++ codes " " else self.old.0), true)) }
    {
        if self.begun {
            self.text.push(b' ')?;
        }
        self.begun = true;
        Ok(())
    }

    /// Adds a token.
    #[tactic(auto, unfolding(crate::specs::Puts::put))]
    pub fn push(&mut self, token: &str) -> Result<(), NoMemory>
        ensures { OnOk result (self.new ≡ put self.old token.now) }
    {
        self.begin()?;
        self.text.extend_from_slice(token.as_bytes())?;
        Ok(())
    }

    /// Adds a keyword.
    pub fn push_key(&mut self, keyword: Keyword) -> Result<(), NoMemory>
        ensures { OnOk result (self.new ≡ put self.old (spec.keyword_text keyword)) }
    {
        self.push(keyword_text(keyword))
    }

    /// Adds a number.
    pub fn push_number(&mut self, number: i64) -> Result<(), NoMemory>
        ensures { OnOk result (self.new ≡ put self.old (signed_decimal number)) }
    {
        self.push(Buffer::new().format(number))
    }

    /// Adds a text in its quotes.
    #[tactic(auto, unfolding(crate::specs::Puts::put))]
    pub fn push_text(&mut self, text: &Str) -> Result<(), NoMemory>
        ensures { OnOk result (self.new ≡ put self.old (quoted text.now)) }
    {
        self.begin()?;
        self.text.push(b'\'')?;
        push_doubled(&mut self.text, text.bytes())?;
        self.text.push(b'\'')?;
        Ok(())
    }

    /// The text.
    pub fn into_bytes(self) -> Vec<u8>
        ensures { result.items ≡ self.0 }
    {
        let Words { text, begun: _ } = self;
        text
    }
}
