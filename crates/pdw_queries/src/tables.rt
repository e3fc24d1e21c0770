//! FROM.

ghost use Rattle.std.specs.Prelude.{◌≡◌};
ghost use Rattle.pdw_syntax.specs.Lexemes as lexemes;
ghost use Rattle.pdw_reading.specs.Levels.{Nests, nested};
ghost use Rattle.pdw_reading.specs.ReadExprs.{after_comma};
ghost use Rattle.pdw_reading.specs.ReadTables as spec;
ghost use Rattle.pdw_syntax.specs.declared.query.Primary.TheVariants.{Named};
ghost use Rattle.pdw_reading.specs.Reading.{Reads, and_then, many as many_spec, meaning_of, next, pure, read};

use crate::rules::Queries;
use pdw_base::Str;
use pdw_lex::{Keyword, Lexeme, Sign};
use pdw_reading::{Content, Source, Stop, Wanted};
use pdw_syntax::{JoinPart, JoinWord, Primary, TableRef};
use pdw_tokens::{Tokens, first_and_rest, many, outer_of};
use sqlite_items::{Boxed, Items as ListOf};
use std::alloc::Global;
use std::mem::drop;

/// `[ AS ] name`
#[tactic(auto, unfolding(pdw_reading::specs::ReadTables::called))]
pub fn called(alloc: Global, tokens: &mut Tokens<'_>) -> Result<Str, Stop>
    ensures { Reads (spec.called tokens.old) result tokens.new }
{
    tokens.eat_key(Keyword::KwAs);
    tokens.take_name(alloc)
}

// A name, which has to come where AS was written.
fn alias_after(
    alloc: Global,
    tokens: &mut Tokens<'_>,
    as_written: bool,
) -> Result<Option<Str>, Stop>
    ensures { Reads (spec.alias_by as_written (next tokens.old) tokens.old) result tokens.new }
{
    if let Some(Lexeme::Name(name)) = tokens.peek() {
        tokens.advance();
        return Ok(Some(name.try_copy(alloc)?));
    }
    if as_written {
        Ok(Some(tokens.take_name(alloc)?))
    } else {
        Ok(None)
    }
}

/// `[ [ AS ] name ]`
#[tactic(auto, unfolding(pdw_reading::specs::ReadTables::alias))]
pub fn alias(alloc: Global, tokens: &mut Tokens<'_>) -> Result<Option<Str>, Stop>
    ensures { Reads (spec.alias tokens.old) result tokens.new }
{
    let as_written = tokens.eat_key(Keyword::KwAs);
    alias_after(alloc, tokens, as_written)
}

// An outer join's side, after which OUTER may stand.
fn outer_word(tokens: &mut Tokens<'_>) -> Option<JoinWord>
    ensures { spec.outer_by (meaning_of lexemes.outer_of (next tokens.old)) tokens.old ≡ read result tokens.new }
{
    match outer_of(tokens.peek()) {
        Some(side) => {
            tokens.advance();
            tokens.eat_key(Keyword::KwOuter);
            Some(side)
        }
        None => None,
    }
}

// Which join comes next, if any, up to its word JOIN.
#[tactic(auto, unfolding(pdw_reading::specs::ReadTables::join_word))]
fn join_word(tokens: &mut Tokens<'_>) -> Option<JoinWord>
    ensures { spec.join_word tokens.old ≡ read result tokens.new }
{
    match tokens.peek() {
        Some(Lexeme::Key(Keyword::KwCross)) => {
            tokens.advance();
            Some(JoinWord::Cross)
        }
        Some(Lexeme::Key(Keyword::KwInner)) => {
            tokens.advance();
            Some(JoinWord::Inner)
        }
        Some(Lexeme::Key(Keyword::KwJoin)) => Some(JoinWord::Inner),
        _ => outer_word(tokens),
    }
}

// The table of this name, with its alias if that is written.
fn named_table(alloc: Global, tokens: &mut Tokens<'_>, table: &Str) -> Result<Primary, Stop>
    ensures { Reads (and_then (spec.alias tokens.old) (λ alias. pure (Named table.now alias))) result tokens.new }
{
    let table = table.try_copy(alloc)?;
    let alias = alias(alloc, tokens)?;
    Ok(Primary::Named { table, alias })
}

impl<F: Fn(Global, &mut Tokens<'_>, usize, Wanted) -> Result<Content, Stop>> Queries<F> {
    // What parentheses begin.
    fn after_source(&self, tokens: &mut Tokens<'_>, inner: Source) -> Result<Primary, Stop>
        ensures { Reads (spec.after_source (nested self.now.grammar.depth) inner tokens.old) result tokens.new }
    {
        match inner {
            Source::Query(query) => {
                let query = Boxed::new(self.grammar.alloc, query)?;
                let alias = called(self.grammar.alloc, tokens)?;
                Ok(Primary::Derived { query, alias })
            }
            Source::Tables(tables) => Ok(Primary::Paren(Boxed::new(self.grammar.alloc, tables)?)),
        }
    }

    // What begins with a pair of parentheses.
    fn begun_by_parentheses(&self, tokens: &mut Tokens<'_>) -> Result<Primary, Stop>
        requires { Nests self.now.grammar.depth (F.pre self.now.grammar.nested) (F.post self.now.grammar.nested) }
        ensures { Reads (and_then ((nested self.now.grammar.depth).source tokens.old) (spec.after_source (nested self.now.grammar.depth))) result tokens.new }
    {
        let inner = self.grammar.nested_source(tokens)?;
        self.after_source(tokens, inner)
    }

    #[tactic(auto, unfolding(pdw_reading::specs::ReadTables::primary))]
    fn primary(&self, tokens: &mut Tokens<'_>) -> Result<Primary, Stop>
        requires { Nests self.now.grammar.depth (F.pre self.now.grammar.nested) (F.post self.now.grammar.nested) }
        ensures { Reads (spec.primary (nested self.now.grammar.depth) tokens.old) result tokens.new }
    {
        match tokens.peek() {
            Some(Lexeme::Name(table)) => {
                tokens.advance();
                named_table(self.grammar.alloc, tokens, table)
            }
            _ => self.begun_by_parentheses(tokens),
        }
    }

    // The join of this table from its condition on.
    fn joined_on(
        &self,
        tokens: &mut Tokens<'_>,
        word: JoinWord,
        right: Primary,
    ) -> Result<JoinPart, Stop>
        requires { Nests self.now.grammar.depth (F.pre self.now.grammar.nested) (F.post self.now.grammar.nested) }
        ensures { Reads (spec.joined_on (nested self.now.grammar.depth) word right tokens.old) result tokens.new }
    {
        match self.grammar.cond(tokens) {
            Ok(on) => Ok(JoinPart {
                word,
                right,
                on: Some(on),
            }),
            Err(stop) => {
                drop(right);
                Err(stop)
            }
        }
    }

    // The join of this table, whose condition is still to come unless the join is CROSS.
    fn joined_by(
        &self,
        tokens: &mut Tokens<'_>,
        word: JoinWord,
        right: Primary,
    ) -> Result<JoinPart, Stop>
        requires { Nests self.now.grammar.depth (F.pre self.now.grammar.nested) (F.post self.now.grammar.nested) }
        ensures { Reads (spec.joined_by (nested self.now.grammar.depth) word right tokens.old) result tokens.new }
    {
        if let JoinWord::Cross = word {
            return Ok(JoinPart {
                word,
                right,
                on: None,
            });
        }
        match tokens.take_key(Keyword::KwOn) {
            Ok(()) => self.joined_on(tokens, word, right),
            Err(stop) => {
                drop(right);
                Err(stop)
            }
        }
    }

    // The rest of a join of this kind, from its word JOIN on.
    #[tactic(auto, unfolding(pdw_reading::specs::ReadTables::joined))]
    fn joined(&self, tokens: &mut Tokens<'_>, word: JoinWord) -> Result<JoinPart, Stop>
        requires { Nests self.now.grammar.depth (F.pre self.now.grammar.nested) (F.post self.now.grammar.nested) }
        ensures { Reads (spec.joined (nested self.now.grammar.depth) word tokens.old) result tokens.new }
    {
        tokens.take_key(Keyword::KwJoin)?;
        let right = self.primary(tokens)?;
        self.joined_by(tokens, word, right)
    }

    // The join that comes next, if any.
    #[tactic(auto, unfolding(pdw_reading::specs::ReadTables::join))]
    fn join(&self, tokens: &mut Tokens<'_>) -> Result<Option<JoinPart>, Stop>
        requires { Nests self.now.grammar.depth (F.pre self.now.grammar.nested) (F.post self.now.grammar.nested) }
        ensures { Reads (spec.join (nested self.now.grammar.depth) tokens.old) result tokens.new }
    {
        match join_word(tokens) {
            Some(word) => Ok(Some(self.joined(tokens, word)?)),
            None => Ok(None),
        }
    }

    fn joins(&self, tokens: &mut Tokens<'_>) -> Result<ListOf<JoinPart>, Stop>
        requires { Nests self.now.grammar.depth (F.pre self.now.grammar.nested) (F.post self.now.grammar.nested) }
        ensures { Reads (many_spec (spec.join (nested self.now.grammar.depth)) tokens.old) result tokens.new }
    {
        many(
            self.grammar.alloc,
            tokens,
            |tokens: &mut Tokens<'_>| self.join(tokens),
        )
    }

    /// A table, and those that are joined to it.
    #[tactic(auto, unfolding(pdw_reading::specs::ReadTables::table_reference))]
    pub fn table_reference(&self, tokens: &mut Tokens<'_>) -> Result<TableRef, Stop>
        requires { Nests self.now.grammar.depth (F.pre self.now.grammar.nested) (F.post self.now.grammar.nested) }
        ensures { Reads (spec.table_reference (nested self.now.grammar.depth) tokens.old) result tokens.new }
    {
        let first = self.primary(tokens)?;
        match self.joins(tokens) {
            Ok(joins) => Ok(TableRef { first, joins }),
            Err(stop) => {
                drop(first);
                Err(stop)
            }
        }
    }

    // The table reference after a comma, if one comes next.
    #[tactic(auto, unfolding(pdw_reading::specs::Reading::eat))]
    fn table_after_comma(&self, tokens: &mut Tokens<'_>) -> Result<Option<TableRef>, Stop>
        requires { Nests self.now.grammar.depth (F.pre self.now.grammar.nested) (F.post self.now.grammar.nested) }
        ensures { Reads (after_comma (spec.table_reference (nested self.now.grammar.depth)) tokens.old) result tokens.new }
    {
        if tokens.eat_sign(Sign::Comma) {
            Ok(Some(self.table_reference(tokens)?))
        } else {
            Ok(None)
        }
    }

    fn tables_after_commas(&self, tokens: &mut Tokens<'_>) -> Result<ListOf<TableRef>, Stop>
        requires { Nests self.now.grammar.depth (F.pre self.now.grammar.nested) (F.post self.now.grammar.nested) }
        ensures { Reads (many_spec (after_comma (spec.table_reference (nested self.now.grammar.depth))) tokens.old) result tokens.new }
    {
        many(
            self.grammar.alloc,
            tokens,
            |tokens: &mut Tokens<'_>| self.table_after_comma(tokens),
        )
    }

    /// Table references with commas between them.
    #[tactic(auto, unfolding(pdw_reading::specs::ReadTables::tables, pdw_reading::specs::ReadExprs::listed))]
    pub fn tables(&self, tokens: &mut Tokens<'_>) -> Result<ListOf<TableRef>, Stop>
        requires { Nests self.now.grammar.depth (F.pre self.now.grammar.nested) (F.post self.now.grammar.nested) }
        ensures { Reads (spec.tables (nested self.now.grammar.depth) tokens.old) result tokens.new }
    {
        let first = self.table_reference(tokens)?;
        match self.tables_after_commas(tokens) {
            Ok(rest) => Ok(first_and_rest(self.grammar.alloc, first, rest)?),
            Err(stop) => {
                drop(first);
                Err(stop)
            }
        }
    }
}
