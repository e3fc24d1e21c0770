//! Queries and SELECT.

ghost use Rattle.std.specs.Prelude.{◌≡◌};
ghost use Rattle.pdw_reading.specs.Levels.{Nests, nested};
ghost use Rattle.pdw_reading.specs.ReadExprs.{after_comma, column_reference as column_reference_spec};
ghost use Rattle.pdw_reading.specs.ReadQueries as spec;
ghost use Rattle.pdw_syntax.specs.Lexemes.{order_name_of};
ghost use Rattle.pdw_reading.specs.Reading.{Reads, many as many_spec, read, take};

use crate::rules::Queries;
use crate::tables::alias;
use pdw_base::Str;
use pdw_lex::{Keyword, Lexeme, Sign};
use pdw_reading::{Among, Content, Source, Stop, Wanted};
use pdw_syntax::{
    ColRef, Item, Items, OrderKey, OrderName, Query, Select, SqlCond, SqlExpr, TableRef,
};
use pdw_tokens::{Tokens, column_reference, direction_of, first_and_rest, many, quantifier_of};
use sqlite_items::Items as ListOf;
use std::alloc::Global;
use std::mem::drop;

// Whether equal rows are to stand once.
#[tactic(auto, unfolding(pdw_reading::specs::ReadQueries::distinct, pdw_reading::specs::Reading::take_if))]
fn distinct(tokens: &mut Tokens<'_>) -> bool
    ensures { spec.distinct tokens.old ≡ read result tokens.new }
{
    tokens
        .taken_if(quantifier_of(tokens.peek()))
        .unwrap_or(false)
}

// The column after a comma, if one comes next.
#[tactic(auto, unfolding(pdw_reading::specs::Reading::eat))]
fn column_after_comma(alloc: Global, tokens: &mut Tokens<'_>) -> Result<Option<ColRef>, Stop>
    ensures { Reads (after_comma column_reference_spec tokens.old) result tokens.new }
{
    if tokens.eat_sign(Sign::Comma) {
        Ok(Some(column_reference(alloc, tokens)?))
    } else {
        Ok(None)
    }
}

fn columns_after_commas(alloc: Global, tokens: &mut Tokens<'_>) -> Result<ListOf<ColRef>, Stop>
    ensures { Reads (many_spec (after_comma column_reference_spec) tokens.old) result tokens.new }
{
    many(
        alloc,
        tokens,
        |tokens: &mut Tokens<'_>| column_after_comma(alloc, tokens),
    )
}

// The columns of GROUP BY, if that is written.
#[tactic(auto, unfolding(pdw_reading::specs::ReadQueries::grouping, pdw_reading::specs::ReadExprs::listed))]
fn grouping(alloc: Global, tokens: &mut Tokens<'_>) -> Result<ListOf<ColRef>, Stop>
    ensures { Reads (spec.grouping tokens.old) result tokens.new }
{
    if !tokens.eat_key(Keyword::KwGroup) {
        return Ok(ListOf::new(alloc));
    }
    tokens.take_key(Keyword::KwBy)?;
    let first = column_reference(alloc, tokens)?;
    let rest = columns_after_commas(alloc, tokens)?;
    Ok(first_and_rest(alloc, first, rest)?)
}

// What a key of ORDER BY names.
#[tactic(auto, unfolding(pdw_reading::specs::Reading::take))]
fn order_name(alloc: Global, tokens: &mut Tokens<'_>) -> Result<OrderName, Stop>
    ensures { Reads (take order_name_of tokens.old) result tokens.new }
{
    match tokens.peek() {
        Some(Lexeme::Name(name)) => {
            tokens.advance();
            Ok(OrderName::Name(name.try_copy(alloc)?))
        }
        Some(Lexeme::Number(position)) => {
            tokens.advance();
            Ok(OrderName::Position(*position))
        }
        _ => Err(Stop::Syntax),
    }
}

#[tactic(auto, unfolding(pdw_reading::specs::ReadQueries::order_key, pdw_reading::specs::Reading::take_if))]
fn order_key(alloc: Global, tokens: &mut Tokens<'_>) -> Result<OrderKey, Stop>
    ensures { Reads (spec.order_key tokens.old) result tokens.new }
{
    let name = order_name(alloc, tokens)?;
    let written = tokens.taken_if(direction_of(tokens.peek()));
    Ok(OrderKey {
        name,
        descending: written.unwrap_or(false),
    })
}

// The key after a comma, if one comes next.
#[tactic(auto, unfolding(pdw_reading::specs::Reading::eat))]
fn key_after_comma(alloc: Global, tokens: &mut Tokens<'_>) -> Result<Option<OrderKey>, Stop>
    ensures { Reads (after_comma spec.order_key tokens.old) result tokens.new }
{
    if tokens.eat_sign(Sign::Comma) {
        Ok(Some(order_key(alloc, tokens)?))
    } else {
        Ok(None)
    }
}

fn keys_after_commas(alloc: Global, tokens: &mut Tokens<'_>) -> Result<ListOf<OrderKey>, Stop>
    ensures { Reads (many_spec (after_comma spec.order_key) tokens.old) result tokens.new }
{
    many(
        alloc,
        tokens,
        |tokens: &mut Tokens<'_>| key_after_comma(alloc, tokens),
    )
}

// The keys of ORDER BY, if that is written.
#[tactic(auto, unfolding(pdw_reading::specs::ReadQueries::ordering, pdw_reading::specs::ReadExprs::listed))]
fn ordering(alloc: Global, tokens: &mut Tokens<'_>) -> Result<ListOf<OrderKey>, Stop>
    ensures { Reads (spec.ordering tokens.old) result tokens.new }
{
    if !tokens.eat_key(Keyword::KwOrder) {
        return Ok(ListOf::new(alloc));
    }
    tokens.take_key(Keyword::KwBy)?;
    let first = order_key(alloc, tokens)?;
    let rest = keys_after_commas(alloc, tokens)?;
    Ok(first_and_rest(alloc, first, rest)?)
}

// The item of this value, with its name if that is written.
fn made(alloc: Global, tokens: &mut Tokens<'_>, value: SqlExpr) -> Result<Item, Stop>
    ensures { Reads (spec.made value tokens.old) result tokens.new }
{
    match alias(alloc, tokens) {
        Ok(name) => Ok(Item::Made { value, name }),
        Err(stop) => {
            drop(value);
            Err(stop)
        }
    }
}

impl<F: Fn(Global, &mut Tokens<'_>, usize, Wanted) -> Result<Content, Stop>> Queries<F> {
    // An item that begins with this value.
    #[tactic(auto, unfolding(pdw_reading::specs::ReadQueries::made_from))]
    fn made_from(&self, tokens: &mut Tokens<'_>, first: SqlExpr) -> Result<Item, Stop>
        requires { Nests self.now.grammar.depth (F.pre self.now.grammar.nested) (F.post self.now.grammar.nested) }
        ensures { Reads (spec.made_from (nested self.now.grammar.depth) first tokens.old) result tokens.new }
    {
        let value = self.grammar.expr_from(tokens, first)?;
        made(self.grammar.alloc, tokens, value)
    }

    // An item that begins with this name and a dot.
    fn dotted(&self, tokens: &mut Tokens<'_>, first: Str) -> Result<Item, Stop>
        requires { Nests self.now.grammar.depth (F.pre self.now.grammar.nested) (F.post self.now.grammar.nested) }
        ensures { Reads (spec.dotted (nested self.now.grammar.depth) first tokens.old) result tokens.new }
    {
        if tokens.eat_sign(Sign::Star) {
            return Ok(Item::AliasStar(first));
        }
        let column = tokens.take_name(self.grammar.alloc)?;
        self.made_from(
            tokens,
            SqlExpr::Col(ColRef {
                alias: Some(first),
                column,
            }),
        )
    }

    // An item that begins with this name.
    fn named(&self, tokens: &mut Tokens<'_>, first: Str) -> Result<Item, Stop>
        requires { Nests self.now.grammar.depth (F.pre self.now.grammar.nested) (F.post self.now.grammar.nested) }
        ensures { Reads (spec.named (nested self.now.grammar.depth) first tokens.old) result tokens.new }
    {
        if tokens.eat_sign(Sign::Dot) {
            return self.dotted(tokens, first);
        }
        self.made_from(
            tokens,
            SqlExpr::Col(ColRef {
                alias: None,
                column: first,
            }),
        )
    }

    #[tactic(auto, unfolding(pdw_reading::specs::ReadQueries::item))]
    fn item(&self, tokens: &mut Tokens<'_>) -> Result<Item, Stop>
        requires { Nests self.now.grammar.depth (F.pre self.now.grammar.nested) (F.post self.now.grammar.nested) }
        ensures { Reads (spec.item (nested self.now.grammar.depth) tokens.old) result tokens.new }
    {
        if let Some(Lexeme::Name(name)) = tokens.peek() {
            tokens.advance();
            let first = name.try_copy(self.grammar.alloc)?;
            return self.named(tokens, first);
        }
        let value = self.grammar.expr(tokens)?;
        made(self.grammar.alloc, tokens, value)
    }

    // The item after a comma, if one comes next.
    #[tactic(auto, unfolding(pdw_reading::specs::Reading::eat))]
    fn item_after_comma(&self, tokens: &mut Tokens<'_>) -> Result<Option<Item>, Stop>
        requires { Nests self.now.grammar.depth (F.pre self.now.grammar.nested) (F.post self.now.grammar.nested) }
        ensures { Reads (after_comma (spec.item (nested self.now.grammar.depth)) tokens.old) result tokens.new }
    {
        if tokens.eat_sign(Sign::Comma) {
            Ok(Some(self.item(tokens)?))
        } else {
            Ok(None)
        }
    }

    fn items_after_commas(&self, tokens: &mut Tokens<'_>) -> Result<ListOf<Item>, Stop>
        requires { Nests self.now.grammar.depth (F.pre self.now.grammar.nested) (F.post self.now.grammar.nested) }
        ensures { Reads (many_spec (after_comma (spec.item (nested self.now.grammar.depth))) tokens.old) result tokens.new }
    {
        many(
            self.grammar.alloc,
            tokens,
            |tokens: &mut Tokens<'_>| self.item_after_comma(tokens),
        )
    }

    #[tactic(auto, unfolding(pdw_reading::specs::ReadQueries::items, pdw_reading::specs::ReadExprs::listed))]
    fn items(&self, tokens: &mut Tokens<'_>) -> Result<Items, Stop>
        requires { Nests self.now.grammar.depth (F.pre self.now.grammar.nested) (F.post self.now.grammar.nested) }
        ensures { Reads (spec.items (nested self.now.grammar.depth) tokens.old) result tokens.new }
    {
        if tokens.eat_sign(Sign::Star) {
            return Ok(Items::Star);
        }
        let first = self.item(tokens)?;
        match self.items_after_commas(tokens) {
            Ok(rest) => Ok(Items::List(first_and_rest(self.grammar.alloc, first, rest)?)),
            Err(stop) => {
                drop(first);
                Err(stop)
            }
        }
    }

    // The condition of WHERE, if that is written.
    #[tactic(auto, unfolding(pdw_reading::specs::ReadQueries::filter, pdw_reading::specs::Reading::eat))]
    fn filter(&self, tokens: &mut Tokens<'_>) -> Result<Option<SqlCond>, Stop>
        requires { Nests self.now.grammar.depth (F.pre self.now.grammar.nested) (F.post self.now.grammar.nested) }
        ensures { Reads (spec.filter (nested self.now.grammar.depth) tokens.old) result tokens.new }
    {
        if tokens.eat_key(Keyword::KwWhere) {
            Ok(Some(self.grammar.cond(tokens)?))
        } else {
            Ok(None)
        }
    }

    // The condition of HAVING, if that is written.
    #[tactic(auto, unfolding(pdw_reading::specs::ReadQueries::having, pdw_reading::specs::Reading::eat))]
    fn having(&self, tokens: &mut Tokens<'_>) -> Result<Option<SqlCond>, Stop>
        requires { Nests self.now.grammar.depth (F.pre self.now.grammar.nested) (F.post self.now.grammar.nested) }
        ensures { Reads (spec.having (nested self.now.grammar.depth) tokens.old) result tokens.new }
    {
        if tokens.eat_key(Keyword::KwHaving) {
            Ok(Some(self.grammar.cond(tokens)?))
        } else {
            Ok(None)
        }
    }

    // A query that may go on with HAVING.
    #[tactic(auto, unfolding(pdw_reading::specs::ReadQueries::query_grouped))]
    fn query_grouped(
        &self,
        tokens: &mut Tokens<'_>,
        distinct: bool,
        items: Items,
        from: ListOf<TableRef>,
        filter: Option<SqlCond>,
        group: ListOf<ColRef>,
    ) -> Result<Query, Stop>
        requires { Nests self.now.grammar.depth (F.pre self.now.grammar.nested) (F.post self.now.grammar.nested) }
        ensures { Reads (spec.query_grouped (nested self.now.grammar.depth) distinct items from filter group tokens.old) result tokens.new }
    {
        match self.having(tokens) {
            Ok(having) => Ok(Query {
                distinct,
                items,
                from,
                filter,
                group,
                having,
            }),
            Err(stop) => {
                drop(items);
                drop(from);
                drop(filter);
                drop(group);
                Err(stop)
            }
        }
    }

    // A query that may go on with GROUP BY.
    #[tactic(auto, unfolding(pdw_reading::specs::ReadQueries::query_filtered))]
    fn query_filtered(
        &self,
        tokens: &mut Tokens<'_>,
        distinct: bool,
        items: Items,
        from: ListOf<TableRef>,
        filter: Option<SqlCond>,
    ) -> Result<Query, Stop>
        requires { Nests self.now.grammar.depth (F.pre self.now.grammar.nested) (F.post self.now.grammar.nested) }
        ensures { Reads (spec.query_filtered (nested self.now.grammar.depth) distinct items from filter tokens.old) result tokens.new }
    {
        match grouping(self.grammar.alloc, tokens) {
            Ok(group) => self.query_grouped(tokens, distinct, items, from, filter, group),
            Err(stop) => {
                drop(items);
                drop(from);
                drop(filter);
                Err(stop)
            }
        }
    }

    // A query that may go on with WHERE.
    #[tactic(auto, unfolding(pdw_reading::specs::ReadQueries::query_of))]
    fn query_of(
        &self,
        tokens: &mut Tokens<'_>,
        distinct: bool,
        items: Items,
        from: ListOf<TableRef>,
    ) -> Result<Query, Stop>
        requires { Nests self.now.grammar.depth (F.pre self.now.grammar.nested) (F.post self.now.grammar.nested) }
        ensures { Reads (spec.query_of (nested self.now.grammar.depth) distinct items from tokens.old) result tokens.new }
    {
        match self.filter(tokens) {
            Ok(filter) => self.query_filtered(tokens, distinct, items, from, filter),
            Err(stop) => {
                drop(items);
                drop(from);
                Err(stop)
            }
        }
    }

    // A query that goes on with the word FROM.
    #[tactic(auto, unfolding(pdw_reading::specs::ReadQueries::query_from))]
    fn query_from(
        &self,
        tokens: &mut Tokens<'_>,
        distinct: bool,
        items: Items,
    ) -> Result<Query, Stop>
        requires { Nests self.now.grammar.depth (F.pre self.now.grammar.nested) (F.post self.now.grammar.nested) }
        ensures { Reads (spec.query_from (nested self.now.grammar.depth) distinct items tokens.old) result tokens.new }
    {
        tokens.take_key(Keyword::KwFrom)?;
        let from = self.tables(tokens)?;
        self.query_of(tokens, distinct, items, from)
    }

    /// A query.
    #[tactic(auto, unfolding(pdw_reading::specs::ReadQueries::query))]
    pub fn query(&self, tokens: &mut Tokens<'_>) -> Result<Query, Stop>
        requires { Nests self.now.grammar.depth (F.pre self.now.grammar.nested) (F.post self.now.grammar.nested) }
        ensures { Reads (spec.query (nested self.now.grammar.depth) tokens.old) result tokens.new }
    {
        tokens.take_key(Keyword::KwSelect)?;
        let distinct = distinct(tokens);
        let items = self.items(tokens)?;
        self.query_from(tokens, distinct, items)
    }

    /// A query with the order of its rows.
    #[tactic(auto, unfolding(pdw_reading::specs::ReadQueries::select))]
    pub fn select(&self, tokens: &mut Tokens<'_>) -> Result<Select, Stop>
        requires { Nests self.now.grammar.depth (F.pre self.now.grammar.nested) (F.post self.now.grammar.nested) }
        ensures { Reads (spec.select (nested self.now.grammar.depth) tokens.old) result tokens.new }
    {
        let query = self.query(tokens)?;
        match ordering(self.grammar.alloc, tokens) {
            Ok(order) => Ok(Select { query, order }),
            Err(stop) => {
                drop(query);
                Err(stop)
            }
        }
    }

    /// What a value is looked for in.
    #[tactic(auto, unfolding(pdw_reading::specs::ReadQueries::among))]
    pub fn among(&self, tokens: &mut Tokens<'_>) -> Result<Among, Stop>
        requires { Nests self.now.grammar.depth (F.pre self.now.grammar.nested) (F.post self.now.grammar.nested) }
        ensures { Reads (spec.among (nested self.now.grammar.depth) tokens.old) result tokens.new }
    {
        if tokens.sees_key(Keyword::KwSelect) {
            Ok(Among::Query(self.query(tokens)?))
        } else {
            Ok(Among::Exprs(self.grammar.exprs(tokens)?))
        }
    }

    /// What stands in parentheses in FROM.
    #[tactic(auto, unfolding(pdw_reading::specs::ReadQueries::source))]
    pub fn source(&self, tokens: &mut Tokens<'_>) -> Result<Source, Stop>
        requires { Nests self.now.grammar.depth (F.pre self.now.grammar.nested) (F.post self.now.grammar.nested) }
        ensures { Reads (spec.source (nested self.now.grammar.depth) tokens.old) result tokens.new }
    {
        if tokens.sees_key(Keyword::KwSelect) {
            Ok(Source::Query(self.query(tokens)?))
        } else {
            Ok(Source::Tables(self.table_reference(tokens)?))
        }
    }
}
