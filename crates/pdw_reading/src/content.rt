//! What parentheses may hold.

use pdw_syntax::{Query, SqlCond, SqlExpr, TableRef};
use sqlite_items::Items as ListOf;

/// What parentheses are to hold.
#[derive(Clone, Copy)]
pub enum Wanted {
    Expr,
    Counted,
    Operand,
    Among,
    Query,
    Source,
}

/// What parentheses hold.
#[derive(Drop)]
pub enum Content {
    Expr(SqlExpr),
    /// None stands for `*`.
    Counted(Option<SqlExpr>),
    Operand(Operand),
    Among(Among),
    Query(Query),
    Source(Source),
}

/// A condition or a value expression, where a text may begin either.
#[derive(Drop)]
pub enum Operand {
    Cond(SqlCond),
    Expr(SqlExpr),
}

/// What a value is looked for in.
#[derive(Drop)]
pub enum Among {
    Query(Query),
    Exprs(ListOf<SqlExpr>),
}

/// What stands in parentheses in FROM.
#[derive(Drop)]
pub enum Source {
    Query(Query),
    Tables(TableRef),
}
