use pdw_base::{ColId, Str};
use pdw_catalog::Table;
use pdw_expr::{Agg, Cond, Scalar};
use pdw_syntax::{CostPart, JoinWord};
use sqlite_items::{Boxed, Items as ListOf};

/// An element of FROM.
#[cycle(judged)]
#[derive(Drop)]
pub enum JFrom {
    Table {
        table: Str,
        /// The name of the table where no alias is written.
        alias: Str,
        /// The columns that are used, by rising numbers, each with its place in the table from 0.
        cols: ListOf<(ColId, u32)>,
    },
    Derived(Boxed<JudgedQuery>),
    Join {
        word: JoinWord,
        left: Boxed<JFrom>,
        right: Boxed<JFrom>,
        /// The conjuncts of ON.
        on: ListOf<Cond>,
    },
}

/// A conjunct of WHERE that is a subquery: EXISTS where there is no left side, else IN.
#[cycle(judged)]
#[derive(Drop)]
pub struct JSub {
    pub negated: bool,
    pub left: Option<Scalar>,
    pub query: JudgedQuery,
}

/// What makes a query grouped.
#[derive(Drop)]
pub struct JGroup {
    /// The grouping columns as they are written. Empty where GROUP BY is not written.
    pub keys: ListOf<ColId>,
    pub aggs: ListOf<Agg>,
    /// The conjuncts of HAVING.
    pub having: ListOf<Cond>,
}

/// An output column.
#[derive(Drop)]
pub struct JItem {
    pub name: Str,
    pub out: ColId,
    /// None where the column of this number is passed through.
    pub make: Option<Scalar>,
}

/// A query with numbers in place of names.
#[cycle(judged)]
#[derive(Drop)]
pub struct JudgedQuery {
    pub from: ListOf<JFrom>,
    /// The conjuncts of WHERE without a subquery and without a column of an enclosing query.
    pub plain: ListOf<Cond>,
    /// The conjuncts of WHERE with a column of the enclosing query.
    pub outer: ListOf<Cond>,
    /// The conjuncts of WHERE that are subqueries.
    pub subs: ListOf<JSub>,
    /// None where the query is not grouped.
    pub group: Option<JGroup>,
    pub items: ListOf<JItem>,
    pub distinct: bool,
}

/// A query with the order of its rows: output columns by their places from 0, each with whether it is descending.
#[derive(Drop)]
pub struct JudgedSelect {
    pub query: JudgedQuery,
    pub order: ListOf<(u32, bool)>,
}

/// What a statement does.
#[derive(Drop)]
pub enum Judged {
    Create(Table),
    Drop(Str),
    Load {
        table: Str,
        file: Str,
    },
    /// Statistics are to be measured.
    Measure(Str),
    /// Statistics are handed over: the number of rows, and by the column's place from 0 the number of distinct values
    /// and the width in bytes.
    Hand {
        table: Str,
        rows: u64,
        cols: ListOf<(u32, u64, u32)>,
    },
    Budget(u32),
    Cost {
        part: CostPart,
        amount: u32,
    },
    Select(JudgedSelect),
    Explain(JudgedSelect),
    ExplainJson(JudgedSelect),
    Profile(JudgedSelect),
    CheckPlan {
        file: Str,
        select: JudgedSelect,
    },
}
