//! A cursor over the tokens of a script.

ghost use Rattle.std.specs.Prelude.{◌≡◌, length, drop};
ghost use Rattle.std.specs.Option.{option_copied};
ghost use Rattle.pdw_syntax.specs.Lexemes.{is_key, is_sign, is_word, name_of, number_of, text_of, same_keyword, same_sign};
ghost use Rattle.pdw_reading.specs.Tokens.{lexemes};
ghost use Rattle.pdw_reading.specs.Reading as reading;
ghost use Rattle.pdw_reading.specs.Reading.{Reads, read, next, sees};

use pdw_base::Str;
use pdw_lex::{Keyword, Lexeme, Sign, Token};
use pdw_reading::Stop;
use std::alloc::Global;
use std::marker::Model;

/// The tokens that are left, which contracts see as their lexemes.
#[derive(Drop)]
pub struct Tokens<'a> {
    left: &'a [Token],
}

impl<'a> Model for Tokens<'a> {
    ghost use Rattle.std.specs.Prelude.{List};
    ghost use Rattle.std.specs.Coded.{coded_list};
    ghost use Rattle.pdw_lex.specs.declared.token.Lexeme.{Lexeme};
    ghost use Rattle.pdw_lex.specs.contracts.token.Lexeme.{the_row};

    ghost Value = { List Lexeme };

    ghost coded = { coded_list the_row.coded };

    ghost use Rattle.pdw_reading.specs.Tokens.{lexemes};

    ghost view = { λ t. lexemes t.left.now };
}

// Whether two keywords are one.
#[tactic(auto, unfolding(pdw_syntax::specs::Lexemes::same_keyword))]
fn same_keyword_as(a: Keyword, b: Keyword) -> bool
    ensures { result ≡ same_keyword a b }
{
    a == b
}

// Whether two signs are one.
#[tactic(auto, unfolding(pdw_syntax::specs::Lexemes::same_sign))]
fn same_sign_as(a: Sign, b: Sign) -> bool
    ensures { result ≡ same_sign a b }
{
    a == b
}

impl<'a> Tokens<'a> {
    /// A cursor before the first token.
    pub fn new(tokens: &'a [Token]) -> Tokens<'a>
        ensures { result ≡ lexemes tokens.now }
    {
        Tokens { left: tokens }
    }

    /// How many tokens are left.
    pub fn left(&self) -> usize
        ensures { result ≡ length self.now }
    {
        self.left.len()
    }

    /// What the next token says.
    pub fn peek(&self) -> Option<&'a Lexeme>
        ensures { option_copied result ≡ next self.now }
    {
        match self.left {
            [token, ..] => Some(&token.lexeme),
            [] => None,
        }
    }

    /// Goes past the next token.
    pub fn advance(&mut self)
        ensures { self.new ≡ drop 1 self.old }
    {
        if let [_, rest @ ..] = self.left {
            self.left = rest;
        }
    }

    /// Takes the next token, where it means something.
    pub fn taken<T>(&mut self, meaning: Option<T>) -> Result<T, Stop>
        ensures { Reads (reading.taken meaning self.old) result self.new }
    {
        match meaning {
            Some(value) => {
                self.advance();
                Ok(value)
            }
            None => Err(Stop::Syntax),
        }
    }

    /// The same, but that a token that means nothing stays.
    pub fn taken_if<T>(&mut self, meaning: Option<T>) -> Option<T>
        ensures { reading.taken_if meaning self.old ≡ read result self.new }
    {
        if meaning.is_some() {
            self.advance();
        }
        meaning
    }

    /// Whether the next token is the keyword.
    pub fn sees_key(&self, key: Keyword) -> bool
        ensures { result ≡ sees (is_key key) self.now }
    {
        match self.peek() {
            Some(Lexeme::Key(found)) => same_keyword_as(*found, key),
            _ => false,
        }
    }

    /// Whether the next token is the sign.
    pub fn sees_sign(&self, sign: Sign) -> bool
        ensures { result ≡ sees (is_sign sign) self.now }
    {
        match self.peek() {
            Some(Lexeme::Sign(found)) => same_sign_as(*found, sign),
            _ => false,
        }
    }

    /// Whether the next token is the word, which stands in lower case.
    pub fn sees_word(&self, word: &str) -> bool
        ensures { result ≡ sees (is_word word.now) self.now }
    {
        match self.peek() {
            Some(Lexeme::Name(found)) => found.text() == word,
            _ => false,
        }
    }

    /// Takes the keyword, if it comes next.
    #[tactic(auto, unfolding(pdw_reading::specs::Reading::eat, pdw_reading::specs::Reading::take_if))]
    pub fn eat_key(&mut self, key: Keyword) -> bool
        ensures { reading.eat (is_key key) self.old ≡ read result self.new }
    {
        let found = self.sees_key(key);
        if found {
            self.advance();
        }
        found
    }

    /// Takes the sign, if it comes next.
    #[tactic(auto, unfolding(pdw_reading::specs::Reading::eat, pdw_reading::specs::Reading::take_if))]
    pub fn eat_sign(&mut self, sign: Sign) -> bool
        ensures { reading.eat (is_sign sign) self.old ≡ read result self.new }
    {
        let found = self.sees_sign(sign);
        if found {
            self.advance();
        }
        found
    }

    /// Takes the word, if it comes next.
    #[tactic(auto, unfolding(pdw_reading::specs::Reading::eat, pdw_reading::specs::Reading::take_if))]
    pub fn eat_word(&mut self, word: &str) -> bool
        ensures { reading.eat (is_word word.now) self.old ≡ read result self.new }
    {
        let found = self.sees_word(word);
        if found {
            self.advance();
        }
        found
    }

    /// Takes the keyword, which has to come next.
    #[tactic(auto, unfolding(pdw_reading::specs::Reading::take))]
    pub fn take_key(&mut self, key: Keyword) -> Result<(), Stop>
        ensures { Reads (reading.take (is_key key) self.old) result self.new }
    {
        if !self.sees_key(key) {
            return Err(Stop::Syntax);
        }
        self.advance();
        Ok(())
    }

    /// Takes the sign, which has to come next.
    #[tactic(auto, unfolding(pdw_reading::specs::Reading::take))]
    pub fn take_sign(&mut self, sign: Sign) -> Result<(), Stop>
        ensures { Reads (reading.take (is_sign sign) self.old) result self.new }
    {
        if !self.sees_sign(sign) {
            return Err(Stop::Syntax);
        }
        self.advance();
        Ok(())
    }

    /// Takes the word, which has to come next.
    #[tactic(auto, unfolding(pdw_reading::specs::Reading::take))]
    pub fn take_word(&mut self, word: &str) -> Result<(), Stop>
        ensures { Reads (reading.take (is_word word.now) self.old) result self.new }
    {
        if !self.sees_word(word) {
            return Err(Stop::Syntax);
        }
        self.advance();
        Ok(())
    }

    /// Takes a name.
    #[tactic(auto, unfolding(pdw_reading::specs::Reading::take))]
    pub fn take_name(&mut self, alloc: Global) -> Result<Str, Stop>
        ensures { Reads (reading.take name_of self.old) result self.new }
    {
        match self.peek() {
            Some(Lexeme::Name(name)) => {
                self.advance();
                Ok(name.try_copy(alloc)?)
            }
            _ => Err(Stop::Syntax),
        }
    }

    /// Takes a number.
    #[tactic(auto, unfolding(pdw_reading::specs::Reading::take))]
    pub fn take_number(&mut self) -> Result<i64, Stop>
        ensures { Reads (reading.take number_of self.old) result self.new }
    {
        match self.peek() {
            Some(Lexeme::Number(number)) => {
                self.advance();
                Ok(*number)
            }
            _ => Err(Stop::Syntax),
        }
    }

    /// Takes a text.
    #[tactic(auto, unfolding(pdw_reading::specs::Reading::take))]
    pub fn take_text(&mut self, alloc: Global) -> Result<Str, Stop>
        ensures { Reads (reading.take text_of self.old) result self.new }
    {
        match self.peek() {
            Some(Lexeme::Text(text)) => {
                self.advance();
                Ok(text.try_copy(alloc)?)
            }
            _ => Err(Stop::Syntax),
        }
    }
}
