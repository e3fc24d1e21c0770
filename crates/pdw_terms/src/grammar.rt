//! The rules that hold parentheses take what reads those as a parameter, so that each rule is proved by itself.

ghost use Rattle.pdw_reading.specs.Levels.{Nests, content_by, nested};
ghost use Rattle.pdw_reading.specs.Reading.{Reads};

use pdw_reading::{Among, Content, Operand, Source, Stop, Wanted};
use pdw_syntax::{Query, SqlExpr};
use pdw_tokens::Tokens;
use std::alloc::Global;

/// What reads expressions and conditions.
#[derive(Clone, Copy)]
pub struct Grammar<F> {
    /// Where the trees are made.
    pub alloc: Global,
    /// How many more parentheses may be open.
    pub depth: usize,
    /// Reads a pair of parentheses with what it holds.
    pub nested: F,
}

impl<F: Fn(Global, &mut Tokens<'_>, usize, Wanted) -> Result<Content, Stop>> Grammar<F> {
    fn content(&self, tokens: &mut Tokens<'_>, wanted: Wanted) -> Result<Content, Stop>
        requires { Nests self.now.depth (F.pre self.now.nested) (F.post self.now.nested) }
        ensures { Reads (content_by (nested self.now.depth) wanted tokens.old) result tokens.new }
    {
        (self.nested)(self.alloc, tokens, self.depth, wanted)
    }

    /// `( expr )`
    pub(crate) fn nested_expr(&self, tokens: &mut Tokens<'_>) -> Result<SqlExpr, Stop>
        requires { Nests self.now.depth (F.pre self.now.nested) (F.post self.now.nested) }
        ensures { Reads ((nested self.now.depth).expr tokens.old) result tokens.new }
    {
        match self.content(tokens, Wanted::Expr) {
            Ok(Content::Expr(expr)) => Ok(expr),
            Ok(_) => unreachable!(),
            Err(stop) => Err(stop),
        }
    }

    /// `( * )`, which gives None, or `( expr )`
    pub(crate) fn nested_counted(&self, tokens: &mut Tokens<'_>) -> Result<Option<SqlExpr>, Stop>
        requires { Nests self.now.depth (F.pre self.now.nested) (F.post self.now.nested) }
        ensures { Reads ((nested self.now.depth).counted tokens.old) result tokens.new }
    {
        match self.content(tokens, Wanted::Counted) {
            Ok(Content::Counted(counted)) => Ok(counted),
            Ok(_) => unreachable!(),
            Err(stop) => Err(stop),
        }
    }

    /// `( cond )` or `( expr )`
    pub(crate) fn nested_operand(&self, tokens: &mut Tokens<'_>) -> Result<Operand, Stop>
        requires { Nests self.now.depth (F.pre self.now.nested) (F.post self.now.nested) }
        ensures { Reads ((nested self.now.depth).operand tokens.old) result tokens.new }
    {
        match self.content(tokens, Wanted::Operand) {
            Ok(Content::Operand(operand)) => Ok(operand),
            Ok(_) => unreachable!(),
            Err(stop) => Err(stop),
        }
    }

    /// `( query )` or `( expr { , expr } )`
    pub(crate) fn nested_among(&self, tokens: &mut Tokens<'_>) -> Result<Among, Stop>
        requires { Nests self.now.depth (F.pre self.now.nested) (F.post self.now.nested) }
        ensures { Reads ((nested self.now.depth).among tokens.old) result tokens.new }
    {
        match self.content(tokens, Wanted::Among) {
            Ok(Content::Among(among)) => Ok(among),
            Ok(_) => unreachable!(),
            Err(stop) => Err(stop),
        }
    }

    /// `( query )`
    pub(crate) fn nested_query(&self, tokens: &mut Tokens<'_>) -> Result<Query, Stop>
        requires { Nests self.now.depth (F.pre self.now.nested) (F.post self.now.nested) }
        ensures { Reads ((nested self.now.depth).query tokens.old) result tokens.new }
    {
        match self.content(tokens, Wanted::Query) {
            Ok(Content::Query(query)) => Ok(query),
            Ok(_) => unreachable!(),
            Err(stop) => Err(stop),
        }
    }

    /// `( query )` or `( tableref )`
    pub fn nested_source(&self, tokens: &mut Tokens<'_>) -> Result<Source, Stop>
        requires { Nests self.now.depth (F.pre self.now.nested) (F.post self.now.nested) }
        ensures { Reads ((nested self.now.depth).source tokens.old) result tokens.new }
    {
        match self.content(tokens, Wanted::Source) {
            Ok(Content::Source(source)) => Ok(source),
            Ok(_) => unreachable!(),
            Err(stop) => Err(stop),
        }
    }
}
