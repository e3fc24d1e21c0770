//! What is reckoned of the columns of a memo's groups.

ghost use Rattle.std.specs.Prelude.{◌≡◌, true, ◌<◌, ◌≤◌, length, if◌then◌else◌};
ghost use Rattle.std.specs.List.{AllByRecursion};
ghost use Rattle.std.specs.Option.{option_or};
ghost use Rattle.pdw_groups.specs.Level.{set_of};
ghost use Rattle.pdw_memo.specs.Laws.{meanings_in};
ghost use Rattle.pdw_memo.specs.Memo.{IsMemo};
ghost use Rattle.pdw_parts.specs.Part.{chosen};
ghost use Rattle.pdw_sizes.specs.Estimate as spec;
ghost use Rattle.pdw_sizes.specs.Numbered as numbered;
ghost use Rattle.pdw_sizes.specs.Reading.{IsFirst};

use crate::made::{aggregate_of, computed, item_of, known, literal_width, scanned_column};
use crate::reading::{Source, child_at, has_leaf, read};
use pdw_base::ColId;
use pdw_expr::{Agg, AggKind, Scalar};
use pdw_groups::{Expr, GroupId, Op};
use pdw_memo::Memo;
use pdw_stats::{ColStat, StatsBook};

/// What is reckoned of a column, or None where the group has it from no table, item or aggregate.
#[cycle(columns)]
pub(crate) fn column_at(memo: &Memo, book: &StatsBook, g: GroupId, c: ColId) -> Option<ColStat>
    requires { g.0 < length memo.now.groups }
    ensures { numbered.IsColumn memo.now book.now g.0 c result }
{
    match read(memo, g) {
        Source::Set { part, leaves, .. } => set_column(
            memo,
            book,
            g,
            part.leaves.as_slice(),
            leaves,
            c,
        ),
        Source::First(expr) => made_column(memo, book, g, expr, c),
    }
}

// A column of some leaves of a block.
#[cycle(columns)]
fn set_column(
    memo: &Memo,
    book: &StatsBook,
    g: GroupId,
    all: &[GroupId],
    leaves: u32,
    c: ColId,
) -> Option<ColStat>
    requires inside { g.0 < length memo.now.groups }
    requires few { length all.now ≤ 10 }
    requires smaller { AllByRecursion (λ leaf. leaf.0 < g.0) (chosen (set_of leaves) all.now) }
    ensures { (of : IsMemo memo.now) → result ≡ numbered.set_columns book.now (meanings_in memo.now of) (chosen (set_of leaves) all.now) c }
{
    let mut found = None;
    for (place, leaf) in all.iter().enumerate() {
        found = column_or(memo, book, g, found, *leaf, has_leaf(leaves, place), c);
    }
    found
}

// A column that was found, or else that of a leaf in the set.
#[cycle(columns)]
fn column_or(
    memo: &Memo,
    book: &StatsBook,
    g: GroupId,
    found: Option<ColStat>,
    leaf: GroupId,
    is_in: bool,
    c: ColId,
) -> Option<ColStat>
    requires inside { g.0 < length memo.now.groups }
    requires smaller { is_in ≡ true → leaf.0 < g.0 }
    ensures { (of : IsMemo memo.now) → result ≡ (if is_in then option_or found (numbered.columns_at book.now (meanings_in memo.now of) leaf.0 c) else found) }
{
    if !is_in {
        return found;
    }
    match found {
        Some(column) => Some(column),
        None => column_at(memo, book, leaf, c),
    }
}

// A column of an operator.
#[cycle(columns)]
fn made_column(memo: &Memo, book: &StatsBook, g: GroupId, expr: &Expr, c: ColId) -> Option<ColStat>
    requires inside { g.0 < length memo.now.groups }
    requires read { IsFirst memo.now g.0 expr.now }
    ensures { numbered.IsColumn memo.now book.now g.0 c result }
{
    let children = expr.children.as_slice();
    match &expr.op {
        Op::Scan { table, cols, .. } => scanned_column(book, table, cols.as_slice(), c),
        Op::Filter { .. } => column_at(memo, book, child_at(children, 0), c),
        Op::Project { items } => {
            item_column(memo, book, child_at(children, 0), items.as_slice(), c)
        }
        Op::Join { .. } => {
            let left = column_at(memo, book, child_at(children, 0), c);
            column_or(memo, book, g, left, child_at(children, 1), true, c)
        }
        Op::GroupBy { aggs, .. } => {
            aggregate_column(memo, book, child_at(children, 0), 8, aggs.as_slice(), c)
        }
        Op::Partial { aggs, .. } => {
            aggregate_column(memo, book, child_at(children, 0), 16, aggs.as_slice(), c)
        }
        Op::Final { .. } => None,
    }
}

// A column of items over a child.
#[cycle(columns)]
fn item_column(
    memo: &Memo,
    book: &StatsBook,
    child: GroupId,
    items: &[(ColId, Option<Scalar>)],
    c: ColId,
) -> Option<ColStat>
    requires { child.0 < length memo.now.groups }
    ensures { (of : IsMemo memo.now) → result ≡ spec.item_columns (numbered.columns_at book.now (meanings_in memo.now of) child.0) items.now c }
{
    match item_of(items, c) {
        Some(made) => Some(computed(expression_width(memo, book, child, made))),
        None => column_at(memo, book, child, c),
    }
}

// A column of a grouping over a child, where counts and sums have this width.
#[cycle(columns)]
fn aggregate_column(
    memo: &Memo,
    book: &StatsBook,
    child: GroupId,
    count: u32,
    aggs: &[Agg],
    c: ColId,
) -> Option<ColStat>
    requires { child.0 < length memo.now.groups }
    ensures { (of : IsMemo memo.now) → result ≡ spec.aggregate_columns count (numbered.columns_at book.now (meanings_in memo.now of) child.0) aggs.now c }
{
    match aggregate_of(aggs, c) {
        Some(agg) => Some(computed(aggregate_width(memo, book, child, count, agg))),
        None => column_at(memo, book, child, c),
    }
}

// Counts and sums have a width of their own, and the least and the greatest that of their argument.
#[cycle(columns)]
fn aggregate_width(memo: &Memo, book: &StatsBook, child: GroupId, count: u32, agg: &Agg) -> u32
    requires { child.0 < length memo.now.groups }
    ensures { (of : IsMemo memo.now) → result ≡ spec.aggregate_width count agg.now.kind (spec.argument_width (numbered.columns_at book.now (meanings_in memo.now of) child.0) agg.now.arg) }
{
    match agg.kind {
        AggKind::CountStar | AggKind::Count | AggKind::Sum => count,
        AggKind::Min | AggKind::Max => match &agg.arg {
            Some(argument) => expression_width(memo, book, child, argument),
            None => 8,
        },
    }
}

// A bare column is as wide as it is, a text literal as its bytes, and any other expression 8.
#[cycle(columns)]
fn expression_width(memo: &Memo, book: &StatsBook, child: GroupId, made: &Scalar) -> u32
    requires { child.0 < length memo.now.groups }
    ensures { (of : IsMemo memo.now) → result ≡ spec.expression_width (numbered.columns_at book.now (meanings_in memo.now of) child.0) made.now }
{
    match made {
        Scalar::Col(c) => known(column_at(memo, book, child, *c)).width,
        Scalar::Lit(value) => literal_width(value),
        Scalar::Neg(_) | Scalar::Chain(..) => 8,
    }
}
