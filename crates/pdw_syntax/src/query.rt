//! Queries and their parts.

use crate::{ColRef, SqlExpr};
use pdw_base::{Str, Truth};
use pdw_expr::Cmp;
use sqlite_items::{Boxed, Items as ListOf};

/// A query with the order of its rows: SQL-92, 13.1.
#[derive(Drop)]
pub struct Select {
    pub query: Query,
    /// Empty where ORDER BY is not written.
    pub order: ListOf<OrderKey>,
}

/// A key of ORDER BY.
#[derive(Drop)]
pub struct OrderKey {
    pub name: OrderName,
    pub descending: bool,
}

/// An output column, by its name or by its position from 1.
#[derive(Drop)]
pub enum OrderName {
    Name(Str),
    Position(i64),
}

/// A query specification: SQL-92, 7.9.
#[cycle(query)]
#[derive(Drop)]
pub struct Query {
    pub distinct: bool,
    pub items: Items,
    pub from: ListOf<TableRef>,
    pub filter: Option<SqlCond>,
    /// Empty where GROUP BY is not written.
    pub group: ListOf<ColRef>,
    pub having: Option<SqlCond>,
}

/// What a query selects.
#[derive(Drop)]
pub enum Items {
    /// `*`
    Star,
    List(ListOf<Item>),
}

/// A part of what a query selects.
#[derive(Drop)]
pub enum Item {
    /// `alias.*`
    AliasStar(Str),
    Made { value: SqlExpr, name: Option<Str> },
}

/// The kind of a join.
#[derive(Clone, Copy, PartialEq, Eq)]
pub enum JoinWord {
    Cross,
    Inner,
    Left,
    Right,
    Full,
}

/// A table to join, which has a condition unless the join is CROSS: SQL-92, 7.5.
#[cycle(query)]
#[derive(Drop)]
pub struct JoinPart {
    pub word: JoinWord,
    pub right: Primary,
    pub on: Option<SqlCond>,
}

/// A first table and those that are joined to it, from left to right: SQL-92, 6.3.
#[cycle(query)]
#[derive(Drop)]
pub struct TableRef {
    pub first: Primary,
    pub joins: ListOf<JoinPart>,
}

/// What can be joined.
#[cycle(query)]
#[derive(Drop)]
pub enum Primary {
    Named { table: Str, alias: Option<Str> },
    Derived { query: Boxed<Query>, alias: Str },
    Paren(Boxed<TableRef>),
}

/// A search condition: SQL-92, 8.2 to 8.12.
#[cycle(query)]
#[derive(Drop)]
pub enum SqlCond {
    Compare(Cmp, SqlExpr, SqlExpr),
    Like {
        negated: bool,
        value: SqlExpr,
        pattern: SqlExpr,
    },
    IsNull {
        negated: bool,
        value: SqlExpr,
    },
    Between {
        negated: bool,
        value: SqlExpr,
        low: SqlExpr,
        high: SqlExpr,
    },
    InList {
        negated: bool,
        value: SqlExpr,
        list: ListOf<SqlExpr>,
    },
    InQuery {
        negated: bool,
        value: SqlExpr,
        query: Boxed<Query>,
    },
    Exists(Boxed<Query>),
    Test {
        negated: bool,
        cond: Boxed<SqlCond>,
        truth: Truth,
    },
    Not(Boxed<SqlCond>),
    /// Conditions with AND between them.
    All(ListOf<SqlCond>),
    /// Conditions with OR between them.
    Any(ListOf<SqlCond>),
    Paren(Boxed<SqlCond>),
}
