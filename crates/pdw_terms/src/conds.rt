//! Conditions.

ghost use Rattle.std.specs.Prelude.{◌≡◌, IfOk};
ghost use Rattle.pdw_syntax.specs.Conds.{all_of as all_of_spec, any_of as any_of_spec, negated_by as negated_by_spec, tested as tested_spec};
ghost use Rattle.pdw_syntax.specs.Lexemes as lexemes;
ghost use Rattle.pdw_reading.specs.Levels.{Nests, nested};
ghost use Rattle.pdw_reading.specs.ReadConds as spec;
ghost use Rattle.pdw_reading.specs.Reading.{Reads, and_then, begun_by, many as many_spec, next, pure};
ghost use Rattle.pdw_reading.specs.declared.content.Operand.TheVariants as operand_is;
ghost use Rattle.pdw_syntax.specs.declared.query.SqlCond.TheVariants.{Exists};

use crate::grammar::Grammar;
use pdw_base::Truth;
use pdw_expr::Cmp;
use pdw_lex::{Keyword, Lexeme, Sign};
use pdw_reading::{Among, Content, Operand, Stop, Wanted};
use pdw_syntax::{SqlCond, SqlExpr};
use pdw_tokens::{Tokens, comparison_of, first_and_rest, many, truth_of};
use sqlite_items::{Boxed, Items as ListOf};
use std::alloc::{AllocError, Global};
use std::mem::drop;

// Conditions with AND between them, or the one that there is.
fn all_of(alloc: Global, first: SqlCond, rest: ListOf<SqlCond>) -> Result<SqlCond, AllocError>
    ensures { IfOk result (λ all. all ≡ all_of_spec first rest) }
{
    if rest.is_empty() {
        return Ok(first);
    }
    Ok(SqlCond::All(first_and_rest(alloc, first, rest)?))
}

// Conditions with OR between them, or the one that there is.
fn any_of(alloc: Global, first: SqlCond, rest: ListOf<SqlCond>) -> Result<SqlCond, AllocError>
    ensures { IfOk result (λ any. any ≡ any_of_spec first rest) }
{
    if rest.is_empty() {
        return Ok(first);
    }
    Ok(SqlCond::Any(first_and_rest(alloc, first, rest)?))
}

fn negated_by(alloc: Global, negated: bool, cond: SqlCond) -> Result<SqlCond, AllocError>
    ensures { IfOk result (λ whole. whole ≡ negated_by_spec negated cond) }
{
    if negated {
        Ok(SqlCond::Not(Boxed::new(alloc, cond)?))
    } else {
        Ok(cond)
    }
}

// A condition and the test of its truth, which NOT may stand before.
fn tested(alloc: Global, cond: SqlCond, test: Option<(bool, Truth)>) -> Result<SqlCond, AllocError>
    ensures { IfOk result (λ whole. whole ≡ tested_spec cond test) }
{
    match test {
        Some((negated, truth)) => Ok(SqlCond::Test {
            negated,
            cond: Boxed::new(alloc, cond)?,
            truth,
        }),
        None => Ok(cond),
    }
}

// The condition that a value is among others.
fn among_cond(
    alloc: Global,
    negated: bool,
    value: SqlExpr,
    among: Among,
) -> Result<SqlCond, AllocError>
    ensures { IfOk result (λ cond. cond ≡ spec.among_cond negated value among) }
{
    match among {
        Among::Query(query) => match Boxed::new(alloc, query) {
            Ok(query) => Ok(SqlCond::InQuery {
                negated,
                value,
                query,
            }),
            Err(error) => {
                drop(value);
                Err(error)
            }
        },
        Among::Exprs(list) => Ok(SqlCond::InList {
            negated,
            value,
            list,
        }),
    }
}

// Whether a value expression goes on to a predicate here.
#[tactic(auto, unfolding(pdw_reading::specs::ReadConds::goes_on))]
fn goes_on(tokens: &Tokens<'_>) -> bool
    ensures { result ≡ spec.goes_on tokens.now }
{
    comparison_of(tokens.peek()).is_some()
        || tokens.sees_key(Keyword::KwNot)
        || tokens.sees_key(Keyword::KwIs)
        || tokens.sees_key(Keyword::KwLike)
        || tokens.sees_key(Keyword::KwBetween)
        || tokens.sees_key(Keyword::KwIn)
}

// What follows IS: whether NOT is written, and the truth.
#[tactic(auto, unfolding(pdw_reading::specs::ReadConds::truth_test, pdw_reading::specs::Reading::take))]
fn truth_test(tokens: &mut Tokens<'_>) -> Result<(bool, Truth), Stop>
    ensures { Reads (spec.truth_test tokens.old) result tokens.new }
{
    let negated = tokens.eat_key(Keyword::KwNot);
    let truth = tokens.taken(truth_of(tokens.peek()))?;
    Ok((negated, truth))
}

// The test of a truth, if IS comes next.
#[tactic(auto, unfolding(pdw_reading::specs::Reading::eat))]
fn truth_test_if(tokens: &mut Tokens<'_>) -> Result<Option<(bool, Truth)>, Stop>
    ensures { Reads (begun_by (lexemes.is_key Keyword.KwIs) (λ _. spec.truth_test) tokens.old) result tokens.new }
{
    if tokens.eat_key(Keyword::KwIs) {
        Ok(Some(truth_test(tokens)?))
    } else {
        Ok(None)
    }
}

// A test that begins with this condition.
#[tactic(auto, unfolding(pdw_reading::specs::ReadConds::test_from))]
fn test_from(alloc: Global, tokens: &mut Tokens<'_>, cond: SqlCond) -> Result<SqlCond, Stop>
    ensures { Reads (spec.test_from cond tokens.old) result tokens.new }
{
    match truth_test_if(tokens) {
        Ok(test) => Ok(tested(alloc, cond, test)?),
        Err(stop) => {
            drop(cond);
            Err(stop)
        }
    }
}

impl<F: Fn(Global, &mut Tokens<'_>, usize, Wanted) -> Result<Content, Stop>> Grammar<F> {
    // What follows `value IS`.
    #[tactic(auto, unfolding(pdw_reading::specs::ReadConds::null_test_from))]
    fn null_test_from(&self, tokens: &mut Tokens<'_>, value: SqlExpr) -> Result<SqlCond, Stop>
        ensures { Reads (spec.null_test_from (nested self.now.depth) value tokens.old) result tokens.new }
    {
        let negated = tokens.eat_key(Keyword::KwNot);
        match tokens.take_key(Keyword::KwNull) {
            Ok(()) => Ok(SqlCond::IsNull { negated, value }),
            Err(stop) => {
                drop(value);
                Err(stop)
            }
        }
    }

    // BETWEEN from its upper bound on.
    fn between_high(
        &self,
        tokens: &mut Tokens<'_>,
        negated: bool,
        value: SqlExpr,
        low: SqlExpr,
    ) -> Result<SqlCond, Stop>
        requires { Nests self.now.depth (F.pre self.now.nested) (F.post self.now.nested) }
        ensures { Reads (spec.between_high (nested self.now.depth) negated value low tokens.old) result tokens.new }
    {
        match self.expr(tokens) {
            Ok(high) => Ok(SqlCond::Between {
                negated,
                value,
                low,
                high,
            }),
            Err(stop) => {
                drop(value);
                drop(low);
                Err(stop)
            }
        }
    }

    // BETWEEN from the word AND on.
    fn between_low(
        &self,
        tokens: &mut Tokens<'_>,
        negated: bool,
        value: SqlExpr,
        low: SqlExpr,
    ) -> Result<SqlCond, Stop>
        requires { Nests self.now.depth (F.pre self.now.nested) (F.post self.now.nested) }
        ensures { Reads (spec.between_low (nested self.now.depth) negated value low tokens.old) result tokens.new }
    {
        match tokens.take_key(Keyword::KwAnd) {
            Ok(()) => self.between_high(tokens, negated, value, low),
            Err(stop) => {
                drop(value);
                drop(low);
                Err(stop)
            }
        }
    }

    // What follows `value [ NOT ] BETWEEN`.
    #[tactic(auto, unfolding(pdw_reading::specs::ReadConds::between_from))]
    fn between_from(
        &self,
        tokens: &mut Tokens<'_>,
        negated: bool,
        value: SqlExpr,
    ) -> Result<SqlCond, Stop>
        requires { Nests self.now.depth (F.pre self.now.nested) (F.post self.now.nested) }
        ensures { Reads (spec.between_from (nested self.now.depth) negated value tokens.old) result tokens.new }
    {
        match self.expr(tokens) {
            Ok(low) => self.between_low(tokens, negated, value, low),
            Err(stop) => {
                drop(value);
                Err(stop)
            }
        }
    }

    // What follows `value [ NOT ] LIKE`.
    fn like_from(
        &self,
        tokens: &mut Tokens<'_>,
        negated: bool,
        value: SqlExpr,
    ) -> Result<SqlCond, Stop>
        requires { Nests self.now.depth (F.pre self.now.nested) (F.post self.now.nested) }
        ensures { Reads (spec.like_from (nested self.now.depth) negated value tokens.old) result tokens.new }
    {
        match self.expr(tokens) {
            Ok(pattern) => Ok(SqlCond::Like {
                negated,
                value,
                pattern,
            }),
            Err(stop) => {
                drop(value);
                Err(stop)
            }
        }
    }

    // What follows `value [ NOT ] IN`.
    fn in_from(
        &self,
        tokens: &mut Tokens<'_>,
        negated: bool,
        value: SqlExpr,
    ) -> Result<SqlCond, Stop>
        requires { Nests self.now.depth (F.pre self.now.nested) (F.post self.now.nested) }
        ensures { Reads (spec.in_from (nested self.now.depth) negated value tokens.old) result tokens.new }
    {
        match self.nested_among(tokens) {
            Ok(among) => Ok(among_cond(self.alloc, negated, value, among)?),
            Err(stop) => {
                drop(value);
                Err(stop)
            }
        }
    }

    // LIKE, BETWEEN or IN, and what they are followed by.
    fn negatable(
        &self,
        tokens: &mut Tokens<'_>,
        negated: bool,
        value: SqlExpr,
    ) -> Result<SqlCond, Stop>
        requires { Nests self.now.depth (F.pre self.now.nested) (F.post self.now.nested) }
        ensures { Reads (spec.negatable_by (nested self.now.depth) negated value (next tokens.old) tokens.old) result tokens.new }
    {
        match tokens.peek() {
            Some(Lexeme::Key(Keyword::KwLike)) => {
                tokens.advance();
                self.like_from(tokens, negated, value)
            }
            Some(Lexeme::Key(Keyword::KwBetween)) => {
                tokens.advance();
                self.between_from(tokens, negated, value)
            }
            Some(Lexeme::Key(Keyword::KwIn)) => {
                tokens.advance();
                self.in_from(tokens, negated, value)
            }
            _ => {
                drop(value);
                Err(Stop::Syntax)
            }
        }
    }

    // The same with NOT before it, if that is written.
    #[tactic(auto, unfolding(pdw_reading::specs::ReadConds::negatable_from))]
    fn negatable_from(&self, tokens: &mut Tokens<'_>, value: SqlExpr) -> Result<SqlCond, Stop>
        requires { Nests self.now.depth (F.pre self.now.nested) (F.post self.now.nested) }
        ensures { Reads (spec.negatable_from (nested self.now.depth) value tokens.old) result tokens.new }
    {
        let negated = tokens.eat_key(Keyword::KwNot);
        self.negatable(tokens, negated, value)
    }

    // A predicate of this operator, if there is one, or another predicate.
    fn predicate_by(
        &self,
        tokens: &mut Tokens<'_>,
        value: SqlExpr,
        operator: Option<Cmp>,
    ) -> Result<SqlCond, Stop>
        requires { Nests self.now.depth (F.pre self.now.nested) (F.post self.now.nested) }
        ensures { Reads (spec.predicate_by (nested self.now.depth) value operator tokens.old) result tokens.new }
    {
        if let Some(operator) = operator {
            return match self.expr(tokens) {
                Ok(other) => Ok(SqlCond::Compare(operator, value, other)),
                Err(stop) => {
                    drop(value);
                    Err(stop)
                }
            };
        }
        if tokens.eat_key(Keyword::KwIs) {
            self.null_test_from(tokens, value)
        } else {
            self.negatable_from(tokens, value)
        }
    }

    // A predicate that begins with this value.
    #[tactic(auto, unfolding(pdw_reading::specs::ReadConds::predicate_from, pdw_reading::specs::Reading::take_if))]
    fn predicate_from(&self, tokens: &mut Tokens<'_>, value: SqlExpr) -> Result<SqlCond, Stop>
        requires { Nests self.now.depth (F.pre self.now.nested) (F.post self.now.nested) }
        ensures { Reads (spec.predicate_from (nested self.now.depth) value tokens.old) result tokens.new }
    {
        let operator = tokens.taken_if(comparison_of(tokens.peek()));
        self.predicate_by(tokens, value, operator)
    }

    // What a pair of parentheses begins.
    fn after_parentheses(&self, tokens: &mut Tokens<'_>, inner: Operand) -> Result<Operand, Stop>
        requires { Nests self.now.depth (F.pre self.now.nested) (F.post self.now.nested) }
        ensures { Reads (spec.after_parentheses (nested self.now.depth) inner tokens.old) result tokens.new }
    {
        match inner {
            Operand::Cond(cond) => Ok(Operand::Cond(SqlCond::Paren(Boxed::new(self.alloc, cond)?))),
            Operand::Expr(expr) => {
                let first = SqlExpr::Paren(Boxed::new(self.alloc, expr)?);
                Ok(Operand::Expr(self.expr_from(tokens, first)?))
            }
        }
    }

    // What begins with a pair of parentheses.
    fn begun_by_parentheses(&self, tokens: &mut Tokens<'_>) -> Result<Operand, Stop>
        requires { Nests self.now.depth (F.pre self.now.nested) (F.post self.now.nested) }
        ensures { Reads (and_then ((nested self.now.depth).operand tokens.old) (spec.after_parentheses (nested self.now.depth))) result tokens.new }
    {
        let inner = self.nested_operand(tokens)?;
        self.after_parentheses(tokens, inner)
    }

    // EXISTS from its query on.
    fn exists(&self, tokens: &mut Tokens<'_>) -> Result<Operand, Stop>
        requires { Nests self.now.depth (F.pre self.now.nested) (F.post self.now.nested) }
        ensures { Reads (and_then ((nested self.now.depth).query tokens.old) (λ query. pure (operand_is.Cond (Exists query)))) result tokens.new }
    {
        let query = self.nested_query(tokens)?;
        Ok(Operand::Cond(SqlCond::Exists(Boxed::new(self.alloc, query)?)))
    }

    // A whole condition that begins one, or the expression that begins a predicate.
    #[tactic(auto, unfolding(pdw_reading::specs::ReadConds::started))]
    fn started(&self, tokens: &mut Tokens<'_>) -> Result<Operand, Stop>
        requires { Nests self.now.depth (F.pre self.now.nested) (F.post self.now.nested) }
        ensures { Reads (spec.started (nested self.now.depth) tokens.old) result tokens.new }
    {
        match tokens.peek() {
            Some(Lexeme::Key(Keyword::KwExists)) => {
                tokens.advance();
                self.exists(tokens)
            }
            Some(Lexeme::Sign(Sign::ParenOpen)) => self.begun_by_parentheses(tokens),
            _ => Ok(Operand::Expr(self.expr(tokens)?)),
        }
    }

    #[tactic(auto, unfolding(pdw_reading::specs::ReadConds::primary_condition))]
    fn primary_condition(&self, tokens: &mut Tokens<'_>) -> Result<SqlCond, Stop>
        requires { Nests self.now.depth (F.pre self.now.nested) (F.post self.now.nested) }
        ensures { Reads (spec.primary_condition (nested self.now.depth) tokens.old) result tokens.new }
    {
        match self.started(tokens)? {
            Operand::Cond(cond) => Ok(cond),
            Operand::Expr(expr) => self.predicate_from(tokens, expr),
        }
    }

    #[tactic(auto, unfolding(pdw_reading::specs::ReadConds::factor))]
    fn factor(&self, tokens: &mut Tokens<'_>) -> Result<SqlCond, Stop>
        requires { Nests self.now.depth (F.pre self.now.nested) (F.post self.now.nested) }
        ensures { Reads (spec.factor (nested self.now.depth) tokens.old) result tokens.new }
    {
        let negated = tokens.eat_key(Keyword::KwNot);
        let primary = self.primary_condition(tokens)?;
        let test = test_from(self.alloc, tokens, primary)?;
        Ok(negated_by(self.alloc, negated, test)?)
    }

    // The condition after AND, if that comes next.
    #[tactic(auto, unfolding(pdw_reading::specs::Reading::eat))]
    fn factor_after_and(&self, tokens: &mut Tokens<'_>) -> Result<Option<SqlCond>, Stop>
        requires { Nests self.now.depth (F.pre self.now.nested) (F.post self.now.nested) }
        ensures { Reads (begun_by (lexemes.is_key Keyword.KwAnd) (λ _. spec.factor (nested self.now.depth)) tokens.old) result tokens.new }
    {
        if tokens.eat_key(Keyword::KwAnd) {
            Ok(Some(self.factor(tokens)?))
        } else {
            Ok(None)
        }
    }

    fn factors_after_and(&self, tokens: &mut Tokens<'_>) -> Result<ListOf<SqlCond>, Stop>
        requires { Nests self.now.depth (F.pre self.now.nested) (F.post self.now.nested) }
        ensures { Reads (many_spec (begun_by (lexemes.is_key Keyword.KwAnd) (λ _. spec.factor (nested self.now.depth))) tokens.old) result tokens.new }
    {
        many(
            self.alloc,
            tokens,
            |tokens: &mut Tokens<'_>| self.factor_after_and(tokens),
        )
    }

    // A term that begins with this factor.
    #[tactic(auto, unfolding(pdw_reading::specs::ReadConds::term_from))]
    fn term_from(&self, tokens: &mut Tokens<'_>, first: SqlCond) -> Result<SqlCond, Stop>
        requires { Nests self.now.depth (F.pre self.now.nested) (F.post self.now.nested) }
        ensures { Reads (spec.term_from (nested self.now.depth) first tokens.old) result tokens.new }
    {
        match self.factors_after_and(tokens) {
            Ok(rest) => Ok(all_of(self.alloc, first, rest)?),
            Err(stop) => {
                drop(first);
                Err(stop)
            }
        }
    }

    #[tactic(auto, unfolding(pdw_reading::specs::ReadConds::term))]
    fn term(&self, tokens: &mut Tokens<'_>) -> Result<SqlCond, Stop>
        requires { Nests self.now.depth (F.pre self.now.nested) (F.post self.now.nested) }
        ensures { Reads (spec.term (nested self.now.depth) tokens.old) result tokens.new }
    {
        let first = self.factor(tokens)?;
        self.term_from(tokens, first)
    }

    // The condition after OR, if that comes next.
    #[tactic(auto, unfolding(pdw_reading::specs::Reading::eat))]
    fn term_after_or(&self, tokens: &mut Tokens<'_>) -> Result<Option<SqlCond>, Stop>
        requires { Nests self.now.depth (F.pre self.now.nested) (F.post self.now.nested) }
        ensures { Reads (begun_by (lexemes.is_key Keyword.KwOr) (λ _. spec.term (nested self.now.depth)) tokens.old) result tokens.new }
    {
        if tokens.eat_key(Keyword::KwOr) {
            Ok(Some(self.term(tokens)?))
        } else {
            Ok(None)
        }
    }

    fn terms_after_or(&self, tokens: &mut Tokens<'_>) -> Result<ListOf<SqlCond>, Stop>
        requires { Nests self.now.depth (F.pre self.now.nested) (F.post self.now.nested) }
        ensures { Reads (many_spec (begun_by (lexemes.is_key Keyword.KwOr) (λ _. spec.term (nested self.now.depth))) tokens.old) result tokens.new }
    {
        many(
            self.alloc,
            tokens,
            |tokens: &mut Tokens<'_>| self.term_after_or(tokens),
        )
    }

    // A condition that begins with this term.
    #[tactic(auto, unfolding(pdw_reading::specs::ReadConds::cond_from))]
    fn cond_from(&self, tokens: &mut Tokens<'_>, first: SqlCond) -> Result<SqlCond, Stop>
        requires { Nests self.now.depth (F.pre self.now.nested) (F.post self.now.nested) }
        ensures { Reads (spec.cond_from (nested self.now.depth) first tokens.old) result tokens.new }
    {
        match self.terms_after_or(tokens) {
            Ok(rest) => Ok(any_of(self.alloc, first, rest)?),
            Err(stop) => {
                drop(first);
                Err(stop)
            }
        }
    }

    /// A condition.
    #[tactic(auto, unfolding(pdw_reading::specs::ReadConds::cond))]
    pub fn cond(&self, tokens: &mut Tokens<'_>) -> Result<SqlCond, Stop>
        requires { Nests self.now.depth (F.pre self.now.nested) (F.post self.now.nested) }
        ensures { Reads (spec.cond (nested self.now.depth) tokens.old) result tokens.new }
    {
        let first = self.term(tokens)?;
        self.cond_from(tokens, first)
    }

    // A condition that begins with this one, which no NOT stands before.
    #[tactic(auto, unfolding(pdw_reading::specs::ReadConds::condition_from))]
    fn condition_from(&self, tokens: &mut Tokens<'_>, first: SqlCond) -> Result<SqlCond, Stop>
        requires { Nests self.now.depth (F.pre self.now.nested) (F.post self.now.nested) }
        ensures { Reads (spec.condition_from (nested self.now.depth) first tokens.old) result tokens.new }
    {
        let test = test_from(self.alloc, tokens, first)?;
        let term = self.term_from(tokens, test)?;
        self.cond_from(tokens, term)
    }

    // What a condition or an expression goes on to.
    #[tactic(auto, unfolding(pdw_reading::specs::ReadConds::goes_on))]
    fn operand_from(&self, tokens: &mut Tokens<'_>, first: Operand) -> Result<Operand, Stop>
        requires { Nests self.now.depth (F.pre self.now.nested) (F.post self.now.nested) }
        ensures { Reads (spec.operand_from (nested self.now.depth) first tokens.old) result tokens.new }
    {
        match first {
            Operand::Cond(cond) => Ok(Operand::Cond(self.condition_from(tokens, cond)?)),
            Operand::Expr(expr) => {
                if !goes_on(tokens) {
                    return Ok(Operand::Expr(expr));
                }
                let predicate = self.predicate_from(tokens, expr)?;
                Ok(Operand::Cond(self.condition_from(tokens, predicate)?))
            }
        }
    }

    /// A condition or an expression.
    #[tactic(auto, unfolding(pdw_reading::specs::ReadConds::operand))]
    pub fn operand(&self, tokens: &mut Tokens<'_>) -> Result<Operand, Stop>
        requires { Nests self.now.depth (F.pre self.now.nested) (F.post self.now.nested) }
        ensures { Reads (spec.operand (nested self.now.depth) tokens.old) result tokens.new }
    {
        if tokens.sees_key(Keyword::KwNot) {
            return Ok(Operand::Cond(self.cond(tokens)?));
        }
        let first = self.started(tokens)?;
        self.operand_from(tokens, first)
    }
}
