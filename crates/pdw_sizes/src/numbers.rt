//! Numbers of rows.

ghost use Rattle.std.specs.Prelude.{◌≡◌};
ghost use Rattle.pdw_sizes.specs.Estimate as spec;
ghost use Rattle.pdw_sizes.specs.Sizes as size;

use pdw_base::ColId;
use pdw_expr::JoinKind;
use pdw_stats::MOST_ROWS;

/// A product, which is at most 10^12.
pub(crate) fn times(rows: u64, more: u64) -> u64
    ensures { result ≡ spec.times rows more }
{
    rows.saturating_mul(more).min(MOST_ROWS)
}

/// A division, which is rounded down, but from some rows leaves one.
pub(crate) fn divided(rows: u64, by: u64) -> u64
    ensures { result ≡ spec.divided rows by }
{
    if rows == 0 {
        return 0;
    }
    match rows.checked_div(by) {
        Some(left) => left.max(1),
        None => 1,
    }
}

/// The rows of a join of which so many pairs are left. A preserved row stands at least once.
pub(crate) fn join_rows(kind: JoinKind, joined: u64, left: u64, right: u64) -> u64
    ensures { result ≡ spec.join_rows kind joined left right }
{
    match kind {
        JoinKind::Inner => joined,
        JoinKind::Left => joined.max(left),
        JoinKind::Full => joined.max(left).max(right),
        JoinKind::Semi | JoinKind::Anti => divided(left, 2),
    }
}

/// The partial rows of n nodes: of each one for each list of key values, but not more than there are rows.
pub(crate) fn partial_rows(n: u64, groups: u64, rows: u64, keys: &[ColId]) -> u64
    ensures { result ≡ size.partial_rows n groups rows keys.now }
{
    if keys.is_empty() {
        n
    } else {
        rows.min(n.saturating_mul(groups))
    }
}
