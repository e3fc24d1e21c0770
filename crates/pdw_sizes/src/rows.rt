//! How many rows a memo's groups are reckoned to have.

ghost use Rattle.std.specs.Prelude.{◌≡◌, true, ◌<◌, ◌≤◌, filter, length, if◌then◌else◌};
ghost use Rattle.std.specs.List.{AllByRecursion};
ghost use Rattle.pdw_groups.specs.Level.{set_of};
ghost use Rattle.pdw_memo.specs.Laws.{meanings_in};
ghost use Rattle.pdw_memo.specs.Memo.{IsMemo};
ghost use Rattle.pdw_parts.specs.Part.{chosen, is_inside};
ghost use Rattle.pdw_sizes.specs.Divisor.{divisor};
ghost use Rattle.pdw_sizes.specs.Estimate as spec;
ghost use Rattle.pdw_sizes.specs.Numbered as numbered;
ghost use Rattle.pdw_sizes.specs.Reading.{IsFirst};
ghost use Rattle.pdw_stats.specs.Book.{stats_of};

use crate::divisors::{distinct_at, divisor};
use crate::numbers::{divided, join_rows, partial_rows, times};
use crate::reading::{Source, child_at, has_leaf, read};
use pdw_base::{ColId, Kind, Str};
use pdw_expr::Cond;
use pdw_groups::{Expr, GroupId, Op};
use pdw_memo::Memo;
use pdw_parts::is_inside;
use pdw_stats::StatsBook;

fn table_rows(book: &StatsBook, table: &Str) -> u64
    ensures { result ≡ spec.table_rows (stats_of table.now book.now) }
{
    match book.get(table) {
        Some(stats) => stats.rows,
        None => 0,
    }
}

// The rows of a group that conjuncts leave, each in turn.
fn rows_left(memo: &Memo, book: &StatsBook, g: GroupId, rows: u64, conds: &[Cond]) -> u64
    requires { g.0 < length memo.now.groups }
    ensures { (of : IsMemo memo.now) → result ≡ spec.rows_left (numbered.columns_at book.now (meanings_in memo.now of) g.0) rows conds.now }
{
    let mut left = rows;
    for conjunct in conds {
        left = divided(left, divisor(memo, book, g, conjunct));
    }
    left
}

// The rows that a conjunct leaves, if it counts.
fn left_if(
    memo: &Memo,
    book: &StatsBook,
    g: GroupId,
    rows: u64,
    counts: bool,
    conjunct: &Cond,
) -> u64
    requires { g.0 < length memo.now.groups }
    ensures { (of : IsMemo memo.now) → result ≡ (if counts then spec.divided rows (divisor (spec.distinct_in (numbered.columns_at book.now (meanings_in memo.now of) g.0)) conjunct.now) else rows) }
{
    if counts {
        divided(rows, divisor(memo, book, g, conjunct))
    } else {
        rows
    }
}

// The rows of a group that the conjuncts inside some columns leave.
fn rows_inside(
    memo: &Memo,
    book: &StatsBook,
    g: GroupId,
    rows: u64,
    schema: &[(ColId, Kind)],
    conds: &[Cond],
) -> u64
    requires { g.0 < length memo.now.groups }
    ensures { (of : IsMemo memo.now) → result ≡ spec.rows_left (numbered.columns_at book.now (meanings_in memo.now of) g.0) rows (filter (is_inside schema.now) conds.now) }
{
    let mut left = rows;
    for conjunct in conds {
        left = left_if(memo, book, g, left, is_inside(schema, conjunct), conjunct);
    }
    left
}

// How many lists of values some keys of a group have.
fn key_lists(memo: &Memo, book: &StatsBook, g: GroupId, keys: &[ColId]) -> u64
    requires { g.0 < length memo.now.groups }
    ensures { (of : IsMemo memo.now) → result ≡ numbered.key_lists (numbered.columns_at book.now (meanings_in memo.now of) g.0) keys.now }
{
    let mut lists = 1;
    for key in keys {
        lists = times(lists, distinct_at(memo, book, g, *key));
    }
    lists
}

// The rows of a grouping by keys of a group that has so many rows.
fn key_rows(memo: &Memo, book: &StatsBook, g: GroupId, rows: u64, keys: &[ColId]) -> u64
    requires { g.0 < length memo.now.groups }
    ensures { (of : IsMemo memo.now) → result ≡ spec.key_rows (numbered.columns_at book.now (meanings_in memo.now of) g.0) rows keys.now }
{
    if keys.is_empty() {
        1
    } else {
        rows.min(key_lists(memo, book, g, keys))
    }
}

/// The rows of a group at n nodes.
#[cycle(rows)]
pub(crate) fn rows_at(memo: &Memo, book: &StatsBook, n: u64, g: GroupId) -> u64
    requires { g.0 < length memo.now.groups }
    ensures { numbered.AreRows memo.now book.now g.0 n result }
{
    match read(memo, g) {
        Source::Set {
            part,
            leaves,
            schema,
        } => {
            let rows = set_rows(memo, book, n, g, part.leaves.as_slice(), leaves);
            rows_inside(memo, book, g, rows, schema, part.conds.as_slice())
        }
        Source::First(expr) => made_rows(memo, book, n, g, expr),
    }
}

// The product of the rows of some leaves of a block.
#[cycle(rows)]
fn set_rows(memo: &Memo, book: &StatsBook, n: u64, g: GroupId, all: &[GroupId], leaves: u32) -> u64
    requires inside { g.0 < length memo.now.groups }
    requires few { length all.now ≤ 10 }
    requires smaller { AllByRecursion (λ leaf. leaf.0 < g.0) (chosen (set_of leaves) all.now) }
    ensures { (of : IsMemo memo.now) → result ≡ numbered.set_rows book.now (meanings_in memo.now of) n (chosen (set_of leaves) all.now) }
{
    let mut rows = 1;
    for (place, leaf) in all.iter().enumerate() {
        rows = rows_times(memo, book, n, g, rows, *leaf, has_leaf(leaves, place));
    }
    rows
}

// The product with a leaf, if it is in the set.
#[cycle(rows)]
fn rows_times(
    memo: &Memo,
    book: &StatsBook,
    n: u64,
    g: GroupId,
    rows: u64,
    leaf: GroupId,
    is_in: bool,
) -> u64
    requires inside { g.0 < length memo.now.groups }
    requires smaller { is_in ≡ true → leaf.0 < g.0 }
    ensures { (of : IsMemo memo.now) → result ≡ (if is_in then spec.times rows (numbered.rows_at book.now (meanings_in memo.now of) n leaf.0) else rows) }
{
    if is_in {
        times(rows, rows_at(memo, book, n, leaf))
    } else {
        rows
    }
}

// The rows of an operator.
#[cycle(rows)]
fn made_rows(memo: &Memo, book: &StatsBook, n: u64, g: GroupId, expr: &Expr) -> u64
    requires inside { g.0 < length memo.now.groups }
    requires read { IsFirst memo.now g.0 expr.now }
    ensures { numbered.AreRows memo.now book.now g.0 n result }
{
    let children = expr.children.as_slice();
    match &expr.op {
        Op::Scan { table, .. } => table_rows(book, table),
        Op::Filter { conds } => {
            let rows = rows_at(memo, book, n, child_at(children, 0));
            rows_left(memo, book, g, rows, conds.as_slice())
        }
        Op::Project { .. } => rows_at(memo, book, n, child_at(children, 0)),
        Op::Join { kind, conds } => {
            let left = rows_at(memo, book, n, child_at(children, 0));
            let right = rows_at(memo, book, n, child_at(children, 1));
            let joined = rows_left(memo, book, g, times(left, right), conds.as_slice());
            join_rows(*kind, joined, left, right)
        }
        Op::GroupBy { keys, .. } => {
            let child = child_at(children, 0);
            let rows = rows_at(memo, book, n, child);
            key_rows(memo, book, child, rows, keys.as_slice())
        }
        Op::Partial { keys, .. } => {
            let child = child_at(children, 0);
            let rows = rows_at(memo, book, n, child);
            let keys = keys.as_slice();
            partial_rows(n, key_rows(memo, book, child, rows, keys), rows, keys)
        }
        Op::Final { .. } => 0,
    }
}
