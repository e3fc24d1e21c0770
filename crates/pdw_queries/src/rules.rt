//! The rules of queries stand on those of expressions and conditions.

ghost use Rattle.pdw_reading.specs.Levels.{Nests, inner_by, nested};
ghost use Rattle.pdw_reading.specs.Reading.{Reads};

use pdw_reading::{Content, Stop, Wanted};
use pdw_terms::Grammar;
use pdw_tokens::Tokens;
use std::alloc::Global;

/// What reads FROM, queries and SELECT.
#[derive(Clone, Copy)]
pub struct Queries<F> {
    /// What reads their expressions and conditions.
    pub grammar: Grammar<F>,
}

impl<F: Fn(Global, &mut Tokens<'_>, usize, Wanted) -> Result<Content, Stop>> Queries<F> {
    /// What is wanted in a pair of parentheses, without these.
    pub fn inner(&self, tokens: &mut Tokens<'_>, wanted: Wanted) -> Result<Content, Stop>
        requires { Nests self.now.grammar.depth (F.pre self.now.grammar.nested) (F.post self.now.grammar.nested) }
        ensures { Reads (inner_by (nested self.now.grammar.depth) wanted tokens.old) result tokens.new }
    {
        match wanted {
            Wanted::Expr => Ok(Content::Expr(self.grammar.expr(tokens)?)),
            Wanted::Counted => Ok(Content::Counted(self.grammar.counted(tokens)?)),
            Wanted::Operand => Ok(Content::Operand(self.grammar.operand(tokens)?)),
            Wanted::Among => Ok(Content::Among(self.among(tokens)?)),
            Wanted::Query => Ok(Content::Query(self.query(tokens)?)),
            Wanted::Source => Ok(Content::Source(self.source(tokens)?)),
        }
    }
}
