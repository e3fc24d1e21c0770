//! Value expressions.

ghost use Rattle.std.specs.Prelude.{◌≡◌, [], ◌∷◌, IfOk};
ghost use Rattle.pdw_syntax.specs.Lexemes as lexemes;
ghost use Rattle.pdw_syntax.specs.declared.expr.SqlExpr.TheVariants.{Paren};
ghost use Rattle.pdw_syntax.specs.Exprs.{chained as chained_spec, with_sign as with_sign_spec};
ghost use Rattle.pdw_reading.specs.Levels.{Nests, nested};
ghost use Rattle.pdw_reading.specs.ReadExprs as spec;
ghost use Rattle.pdw_reading.specs.Reading.{Reads, and_then, many as many_spec, pure};

use crate::grammar::Grammar;
use pdw_base::Str;
use pdw_expr::{AggKind, Arith};
use pdw_lex::{Lexeme, Sign};
use pdw_reading::{Content, Stop, Wanted};
use pdw_syntax::SqlExpr;
use pdw_tokens::{
    Tokens, aggregate_of, column_from, factor_operator_of, first_and_rest, many, minus_of,
    term_operator_of,
};
use sqlite_items::{Boxed, Items as ListOf};
use std::alloc::{AllocError, Global};
use std::mem::drop;

// An operand and what is chained to it.
fn chained(
    alloc: Global,
    first: SqlExpr,
    rest: ListOf<(Arith, SqlExpr)>,
) -> Result<SqlExpr, AllocError>
    ensures { IfOk result (λ chain. chain ≡ chained_spec first rest) }
{
    if rest.is_empty() {
        return Ok(first);
    }
    Ok(SqlExpr::Chain {
        first: Boxed::new(alloc, first)?,
        rest,
    })
}

// A value and the sign before it: whether that is a minus.
fn with_sign(alloc: Global, minus: Option<bool>, value: SqlExpr) -> Result<SqlExpr, AllocError>
    ensures { IfOk result (λ signed. signed ≡ with_sign_spec minus value) }
{
    match minus {
        Some(minus) => Ok(SqlExpr::Signed {
            minus,
            value: Boxed::new(alloc, value)?,
        }),
        None => Ok(value),
    }
}

// COUNT of what stands in its parentheses.
fn count_of(alloc: Global, counted: Option<SqlExpr>) -> Result<SqlExpr, AllocError>
    ensures { IfOk result (λ count. count ≡ spec.count_of counted) }
{
    match counted {
        Some(value) => Ok(SqlExpr::Agg {
            kind: AggKind::Count,
            arg: Some(Boxed::new(alloc, value)?),
        }),
        None => Ok(SqlExpr::Agg {
            kind: AggKind::CountStar,
            arg: None,
        }),
    }
}

// The value of the column that begins with this name.
fn column_value(alloc: Global, tokens: &mut Tokens<'_>, name: &Str) -> Result<SqlExpr, Stop>
    ensures { Reads (spec.column_value name.now tokens.old) result tokens.new }
{
    let first = name.try_copy(alloc)?;
    Ok(SqlExpr::Col(column_from(alloc, tokens, first)?))
}

impl<F: Fn(Global, &mut Tokens<'_>, usize, Wanted) -> Result<Content, Stop>> Grammar<F> {
    // What an aggregate of this kind is of.
    fn aggregated(&self, tokens: &mut Tokens<'_>, kind: AggKind) -> Result<SqlExpr, Stop>
        requires { Nests self.now.depth (F.pre self.now.nested) (F.post self.now.nested) }
        ensures { Reads (spec.aggregate_by (nested self.now.depth) kind tokens.old) result tokens.new }
    {
        if let AggKind::Count = kind {
            let counted = self.nested_counted(tokens)?;
            return Ok(count_of(self.alloc, counted)?);
        }
        let value = self.nested_expr(tokens)?;
        Ok(SqlExpr::Agg {
            kind,
            arg: Some(Boxed::new(self.alloc, value)?),
        })
    }

    #[tactic(auto, unfolding(pdw_reading::specs::ReadExprs::aggregate, pdw_reading::specs::Reading::take))]
    fn aggregate(&self, tokens: &mut Tokens<'_>) -> Result<SqlExpr, Stop>
        requires { Nests self.now.depth (F.pre self.now.nested) (F.post self.now.nested) }
        ensures { Reads (spec.aggregate (nested self.now.depth) tokens.old) result tokens.new }
    {
        let kind = tokens.taken(aggregate_of(tokens.peek()))?;
        self.aggregated(tokens, kind)
    }

    // `( expr )`, which stays in its parentheses.
    fn parenthesized(&self, tokens: &mut Tokens<'_>) -> Result<SqlExpr, Stop>
        requires { Nests self.now.depth (F.pre self.now.nested) (F.post self.now.nested) }
        ensures { Reads (and_then ((nested self.now.depth).expr tokens.old) (λ x. pure (Paren x))) result tokens.new }
    {
        let inner = self.nested_expr(tokens)?;
        Ok(SqlExpr::Paren(Boxed::new(self.alloc, inner)?))
    }

    #[tactic(auto, unfolding(pdw_reading::specs::ReadExprs::value))]
    fn value(&self, tokens: &mut Tokens<'_>) -> Result<SqlExpr, Stop>
        requires { Nests self.now.depth (F.pre self.now.nested) (F.post self.now.nested) }
        ensures { Reads (spec.value (nested self.now.depth) tokens.old) result tokens.new }
    {
        match tokens.peek() {
            Some(Lexeme::Number(number)) => {
                tokens.advance();
                Ok(SqlExpr::Number(*number))
            }
            Some(Lexeme::Text(text)) => {
                tokens.advance();
                Ok(SqlExpr::Text(text.try_copy(self.alloc)?))
            }
            Some(Lexeme::Name(name)) => {
                tokens.advance();
                column_value(self.alloc, tokens, name)
            }
            Some(Lexeme::Key(_)) => self.aggregate(tokens),
            _ => self.parenthesized(tokens),
        }
    }

    #[tactic(auto, unfolding(pdw_reading::specs::ReadExprs::signed, pdw_reading::specs::Reading::take_if))]
    fn signed(&self, tokens: &mut Tokens<'_>) -> Result<SqlExpr, Stop>
        requires { Nests self.now.depth (F.pre self.now.nested) (F.post self.now.nested) }
        ensures { Reads (spec.signed (nested self.now.depth) tokens.old) result tokens.new }
    {
        let minus = tokens.taken_if(minus_of(tokens.peek()));
        let value = self.value(tokens)?;
        Ok(with_sign(self.alloc, minus, value)?)
    }

    // An operator and its right operand, if an operator comes next.
    #[tactic(auto, unfolding(pdw_reading::specs::Reading::take_if))]
    fn factor_operation(&self, tokens: &mut Tokens<'_>) -> Result<Option<(Arith, SqlExpr)>, Stop>
        requires { Nests self.now.depth (F.pre self.now.nested) (F.post self.now.nested) }
        ensures { Reads (spec.operations lexemes.factor_operator_of (spec.signed (nested self.now.depth)) tokens.old) result tokens.new }
    {
        match tokens.taken_if(factor_operator_of(tokens.peek())) {
            Some(operator) => Ok(Some((operator, self.signed(tokens)?))),
            None => Ok(None),
        }
    }

    // The operators of a product with their right operands.
    fn factor_operations(&self, tokens: &mut Tokens<'_>) -> Result<ListOf<(Arith, SqlExpr)>, Stop>
        requires { Nests self.now.depth (F.pre self.now.nested) (F.post self.now.nested) }
        ensures { Reads (many_spec (spec.operations lexemes.factor_operator_of (spec.signed (nested self.now.depth))) tokens.old) result tokens.new }
    {
        many(
            self.alloc,
            tokens,
            |tokens: &mut Tokens<'_>| self.factor_operation(tokens),
        )
    }

    // A product that begins with this operand.
    #[tactic(auto, unfolding(pdw_reading::specs::ReadExprs::product_from))]
    fn product_from(&self, tokens: &mut Tokens<'_>, first: SqlExpr) -> Result<SqlExpr, Stop>
        requires { Nests self.now.depth (F.pre self.now.nested) (F.post self.now.nested) }
        ensures { Reads (spec.product_from (nested self.now.depth) first tokens.old) result tokens.new }
    {
        match self.factor_operations(tokens) {
            Ok(rest) => Ok(chained(self.alloc, first, rest)?),
            Err(stop) => {
                drop(first);
                Err(stop)
            }
        }
    }

    #[tactic(auto, unfolding(pdw_reading::specs::ReadExprs::product))]
    fn product(&self, tokens: &mut Tokens<'_>) -> Result<SqlExpr, Stop>
        requires { Nests self.now.depth (F.pre self.now.nested) (F.post self.now.nested) }
        ensures { Reads (spec.product (nested self.now.depth) tokens.old) result tokens.new }
    {
        let first = self.signed(tokens)?;
        self.product_from(tokens, first)
    }

    // An operator and its right operand, if an operator comes next.
    #[tactic(auto, unfolding(pdw_reading::specs::Reading::take_if))]
    fn term_operation(&self, tokens: &mut Tokens<'_>) -> Result<Option<(Arith, SqlExpr)>, Stop>
        requires { Nests self.now.depth (F.pre self.now.nested) (F.post self.now.nested) }
        ensures { Reads (spec.operations lexemes.term_operator_of (spec.product (nested self.now.depth)) tokens.old) result tokens.new }
    {
        match tokens.taken_if(term_operator_of(tokens.peek())) {
            Some(operator) => Ok(Some((operator, self.product(tokens)?))),
            None => Ok(None),
        }
    }

    // The operators of a sum with their right operands.
    fn term_operations(&self, tokens: &mut Tokens<'_>) -> Result<ListOf<(Arith, SqlExpr)>, Stop>
        requires { Nests self.now.depth (F.pre self.now.nested) (F.post self.now.nested) }
        ensures { Reads (many_spec (spec.operations lexemes.term_operator_of (spec.product (nested self.now.depth))) tokens.old) result tokens.new }
    {
        many(
            self.alloc,
            tokens,
            |tokens: &mut Tokens<'_>| self.term_operation(tokens),
        )
    }

    // A sum that begins with this operand.
    #[tactic(auto, unfolding(pdw_reading::specs::ReadExprs::sum_from))]
    fn sum_from(&self, tokens: &mut Tokens<'_>, first: SqlExpr) -> Result<SqlExpr, Stop>
        requires { Nests self.now.depth (F.pre self.now.nested) (F.post self.now.nested) }
        ensures { Reads (spec.sum_from (nested self.now.depth) first tokens.old) result tokens.new }
    {
        match self.term_operations(tokens) {
            Ok(rest) => Ok(chained(self.alloc, first, rest)?),
            Err(stop) => {
                drop(first);
                Err(stop)
            }
        }
    }

    /// A value expression.
    #[tactic(auto, unfolding(pdw_reading::specs::ReadExprs::expr))]
    pub fn expr(&self, tokens: &mut Tokens<'_>) -> Result<SqlExpr, Stop>
        requires { Nests self.now.depth (F.pre self.now.nested) (F.post self.now.nested) }
        ensures { Reads (spec.expr (nested self.now.depth) tokens.old) result tokens.new }
    {
        let first = self.product(tokens)?;
        self.sum_from(tokens, first)
    }

    /// An expression that begins with this value.
    #[tactic(auto, unfolding(pdw_reading::specs::ReadExprs::expr_from))]
    pub fn expr_from(&self, tokens: &mut Tokens<'_>, first: SqlExpr) -> Result<SqlExpr, Stop>
        requires { Nests self.now.depth (F.pre self.now.nested) (F.post self.now.nested) }
        ensures { Reads (spec.expr_from (nested self.now.depth) first tokens.old) result tokens.new }
    {
        let product = self.product_from(tokens, first)?;
        self.sum_from(tokens, product)
    }

    /// What COUNT counts: None is `*`.
    #[tactic(auto, unfolding(pdw_reading::specs::ReadExprs::counted))]
    pub fn counted(&self, tokens: &mut Tokens<'_>) -> Result<Option<SqlExpr>, Stop>
        requires { Nests self.now.depth (F.pre self.now.nested) (F.post self.now.nested) }
        ensures { Reads (spec.counted (nested self.now.depth) tokens.old) result tokens.new }
    {
        if tokens.eat_sign(Sign::Star) {
            return Ok(None);
        }
        Ok(Some(self.expr(tokens)?))
    }

    // The expression after a comma, if one comes next.
    #[tactic(auto, unfolding(pdw_reading::specs::Reading::eat))]
    fn expr_after_comma(&self, tokens: &mut Tokens<'_>) -> Result<Option<SqlExpr>, Stop>
        requires { Nests self.now.depth (F.pre self.now.nested) (F.post self.now.nested) }
        ensures { Reads (spec.after_comma (spec.expr (nested self.now.depth)) tokens.old) result tokens.new }
    {
        if tokens.eat_sign(Sign::Comma) {
            Ok(Some(self.expr(tokens)?))
        } else {
            Ok(None)
        }
    }

    fn exprs_after_commas(&self, tokens: &mut Tokens<'_>) -> Result<ListOf<SqlExpr>, Stop>
        requires { Nests self.now.depth (F.pre self.now.nested) (F.post self.now.nested) }
        ensures { Reads (many_spec (spec.after_comma (spec.expr (nested self.now.depth))) tokens.old) result tokens.new }
    {
        many(
            self.alloc,
            tokens,
            |tokens: &mut Tokens<'_>| self.expr_after_comma(tokens),
        )
    }

    /// Expressions with commas between them.
    #[tactic(auto, unfolding(pdw_reading::specs::ReadExprs::listed))]
    pub fn exprs(&self, tokens: &mut Tokens<'_>) -> Result<ListOf<SqlExpr>, Stop>
        requires { Nests self.now.depth (F.pre self.now.nested) (F.post self.now.nested) }
        ensures { Reads (spec.listed (spec.expr (nested self.now.depth)) tokens.old) result tokens.new }
    {
        let first = self.expr(tokens)?;
        match self.exprs_after_commas(tokens) {
            Ok(rest) => Ok(first_and_rest(self.alloc, first, rest)?),
            Err(stop) => {
                drop(first);
                Err(stop)
            }
        }
    }
}
