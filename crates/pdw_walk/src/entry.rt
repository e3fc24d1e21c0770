//! What a walk keeps of the columns that it meets.

use pdw_base::{ColId, Kind, Str};
use pdw_expr::{Cond, Scalar};
use pdw_form::{JItem, JSub, JudgedQuery};
use pdw_syntax::JoinWord;
use sqlite_items::{Boxed, Items as ListOf};

/// What a number stands for.
#[derive(Clone, Copy, Debug, PartialEq, Eq)]
pub enum Slot {
    /// A column of a table reference: the reference's number in the statement, and the column's place, from 0.
    Base { reference: u32, column: u32 },
    /// A computed item or an aggregate, by its own number.
    Made(u32),
}

/// A column that an element of FROM gives.
#[derive(Debug, Drop)]
pub struct Entry {
    pub alias: Str,
    pub column: Str,
    pub kind: Kind,
    pub slot: Slot,
}

/// The number of a column, and what it stands for.
#[derive(Clone, Copy, Debug)]
pub struct Numbered {
    pub number: ColId,
    pub slot: Slot,
}

/// A column that a reference means.
#[derive(Clone, Copy, Debug)]
pub struct Met {
    pub kind: Kind,
    pub column: Numbered,
}

/// An expression with numbers in place of names.
#[derive(Drop)]
pub struct Typed {
    pub kind: Kind,
    pub scalar: Scalar,
    /// Where it is a column or an aggregate by itself.
    pub bare: Option<Numbered>,
}

/// The output columns of a query, as the query makes them and as a derived table shows them.
#[derive(Drop)]
pub struct Outputs {
    pub items: ListOf<JItem>,
    pub columns: ListOf<Column>,
}

/// An element of FROM whose used columns are not known yet.
#[cycle(draft)]
#[derive(Drop)]
pub enum Draft {
    Table {
        table: Str,
        alias: Str,
        /// The reference's number in the statement, from 0.
        reference: u32,
    },
    Derived(JudgedQuery),
    Join {
        word: JoinWord,
        left: Boxed<Draft>,
        right: Boxed<Draft>,
        on: ListOf<Cond>,
    },
}

/// An element of FROM and the columns that it gives.
#[derive(Drop)]
pub struct Element {
    pub draft: Draft,
    pub entries: ListOf<Entry>,
}

/// The conjuncts of WHERE in their three kinds.
#[derive(Drop)]
pub struct Conjuncts {
    pub plain: ListOf<Cond>,
    pub outer: ListOf<Cond>,
    pub subs: ListOf<JSub>,
}

/// What a query is the query of.
#[derive(Clone, Copy, Debug, PartialEq, Eq)]
pub enum Role {
    Statement,
    DerivedTable,
    In,
    Exists,
}

/// A query with numbers in place of names, with its output columns.
#[derive(Drop)]
pub struct Walked {
    pub query: JudgedQuery,
    pub outputs: ListOf<Column>,
}

/// An output column as a derived table shows it.
#[derive(Debug, Drop)]
pub struct Column {
    pub name: Str,
    pub kind: Kind,
    pub slot: Slot,
}
