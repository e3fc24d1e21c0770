//! Value expressions.

use pdw_base::Str;
use pdw_expr::{AggKind, Arith};
use sqlite_items::{Boxed, Items as ListOf};

/// A column by its name, with the alias of its table where that is written: SQL-92, 6.4.
#[derive(Drop)]
pub struct ColRef {
    pub alias: Option<Str>,
    pub column: Str,
}

/// A value expression: SQL-92, 6.11 to 6.14.
#[derive(Drop)]
pub enum SqlExpr {
    Col(ColRef),
    Number(i64),
    Text(Str),
    Signed {
        minus: bool,
        value: Boxed<SqlExpr>,
    },
    /// Operands of one precedence with the operators between them, from left to right.
    Chain {
        first: Boxed<SqlExpr>,
        rest: ListOf<(Arith, SqlExpr)>,
    },
    /// `COUNT(*)` has no argument.
    Agg {
        kind: AggKind,
        arg: Option<Boxed<SqlExpr>>,
    },
    Paren(Boxed<SqlExpr>),
}
