//! By what conjuncts divide rows.

ghost use Rattle.std.specs.Prelude.{◌≡◌, ◌<◌, [], length};
ghost use Rattle.std.specs.List.{list_all};
ghost use Rattle.pdw_algebra.specs.Shape.{has_number};
ghost use Rattle.pdw_expr.specs.Columns as used;
ghost use Rattle.pdw_memo.specs.Laws.{meanings_in};
ghost use Rattle.pdw_memo.specs.Memo.{IsMemo};
ghost use Rattle.pdw_sizes.specs.Divisor as spec;
ghost use Rattle.pdw_sizes.specs.Estimate.{distinct_in, width_in};
ghost use Rattle.pdw_sizes.specs.Numbered.{columns_at};

use crate::columns::column_at;
use crate::made::known;
use pdw_base::ColId;
use pdw_expr::{Arith, Cmp, Cond, Scalar};
use pdw_groups::GroupId;
use pdw_memo::Memo;
use pdw_stats::StatsBook;

/// One side of a comparison.
#[derive(Clone, Copy)]
pub(crate) enum Side {
    /// The column that it is.
    Column(ColId),
    /// An expression without columns.
    Constant,
    Other,
}

// Whether the operands of a chain use no column.
#[cycle(constants)]
fn links_constant(links: &[(Arith, Scalar)]) -> bool
    ensures { result ≡ list_all (λ link. list_all (λ c. has_number c []) (used.scalar_columns link.1)) links.now }
{
    for link in links {
        if !is_constant(&link.1) {
            return false;
        }
    }
    true
}

// Whether an expression uses no column: none is among no columns.
#[cycle(constants)]
fn is_constant(e: &Scalar) -> bool
    ensures { result ≡ list_all (λ c. has_number c []) (used.scalar_columns e.now) }
{
    match e {
        Scalar::Col(_) => false,
        Scalar::Lit(_) => true,
        Scalar::Neg(operand) => is_constant(operand.get()),
        Scalar::Chain(first, rest) => is_constant(first.get()) && links_constant(rest.as_slice()),
    }
}

fn side_without(is_constant: bool) -> Side
    ensures { result ≡ spec.side_if is_constant }
{
    if is_constant {
        Side::Constant
    } else {
        Side::Other
    }
}

fn side_of(e: &Scalar) -> Side
    ensures { result ≡ spec.side_of e.now }
{
    match e {
        Scalar::Col(c) => Side::Column(*c),
        _ => side_without(is_constant(e)),
    }
}

/// How many different values a column of a group has.
pub(crate) fn distinct_at(memo: &Memo, book: &StatsBook, g: GroupId, c: ColId) -> u64
    requires { g.0 < length memo.now.groups }
    ensures { (of : IsMemo memo.now) → result ≡ distinct_in (columns_at book.now (meanings_in memo.now of) g.0) c }
{
    known(column_at(memo, book, g, c)).distinct
}

/// How wide a column of a group is.
pub(crate) fn width_at(memo: &Memo, book: &StatsBook, g: GroupId, c: ColId) -> u32
    requires { g.0 < length memo.now.groups }
    ensures { (of : IsMemo memo.now) → result ≡ width_in (columns_at book.now (meanings_in memo.now of) g.0) c }
{
    known(column_at(memo, book, g, c)).width
}

fn equality_divisor(memo: &Memo, book: &StatsBook, g: GroupId, left: Side, right: Side) -> u64
    requires { g.0 < length memo.now.groups }
    ensures { (of : IsMemo memo.now) → result ≡ spec.equality_divisor (distinct_in (columns_at book.now (meanings_in memo.now of) g.0)) left right }
{
    match (left, right) {
        (Side::Column(a), Side::Column(b)) => {
            distinct_at(memo, book, g, a).max(distinct_at(memo, book, g, b))
        }
        (Side::Column(a), Side::Constant) => distinct_at(memo, book, g, a),
        (Side::Constant, Side::Column(b)) => distinct_at(memo, book, g, b),
        _ => 2,
    }
}

fn compare_divisor(
    memo: &Memo,
    book: &StatsBook,
    g: GroupId,
    compare: Cmp,
    left: Side,
    right: Side,
) -> u64
    requires { g.0 < length memo.now.groups }
    ensures { (of : IsMemo memo.now) → result ≡ spec.compare_divisor (distinct_in (columns_at book.now (meanings_in memo.now of) g.0)) compare left right }
{
    match compare {
        Cmp::Eq => equality_divisor(memo, book, g, left, right),
        Cmp::Ne => 2,
        Cmp::Lt | Cmp::Le | Cmp::Gt | Cmp::Ge => 3,
    }
}

/// By what a conjunct divides the rows of a group.
pub(crate) fn divisor(memo: &Memo, book: &StatsBook, g: GroupId, conjunct: &Cond) -> u64
    requires { g.0 < length memo.now.groups }
    ensures { (of : IsMemo memo.now) → result ≡ spec.divisor (distinct_in (columns_at book.now (meanings_in memo.now of) g.0)) conjunct.now }
{
    match conjunct {
        Cond::Compare(compare, left, right) => {
            compare_divisor(memo, book, g, *compare, side_of(left), side_of(right))
        }
        _ => 2,
    }
}
