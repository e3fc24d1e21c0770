//! Settings, and statistics that are handed over.

ghost use Rattle.std.specs.Prelude.{◌≡◌, ◌≤◌, [], IfOk};
ghost use Rattle.std.specs.List.{list_any};
ghost use Rattle.pdw_walk.specs.Statements as spec;
ghost use Rattle.pdw_walk.specs.Statements.{Answers, answer_of};
ghost use Rattle.pdw_walk.specs.Walk.{Walks, beginning, over};

use crate::columns::place_of_column;
use pdw_base::Str;
use pdw_catalog::{Catalog, Column};
use pdw_form::Judged;
use pdw_resolve::text_from;
use pdw_syntax::CostPart;
use pdw_walk::{JudgeFault, MOST_BUDGET, MOST_COST, MOST_STATISTIC, MOST_WIDTH};
use sqlite_items::Items as ListOf;
use std::alloc::Global;

// The number of a setting or a statistic, from a least to a greatest one.
#[tactic(auto, unfolding(pdw_walk::specs::Statements::setting))]
fn setting(
    alloc: Global,
    name: &str,
    least: usize,
    most: usize,
    amount: i64,
) -> Result<u64, JudgeFault>
    ensures step { Walks (spec.setting name.now least most amount beginning) result beginning }
    ensures within { IfOk result (λ value. value ≤ most) }
{
    match usize::try_from(amount) {
        Ok(value) if value >= least && value <= most => Ok(value as u64),
        _ => Err(JudgeFault::BadSetting {
            name: text_from(alloc, name)?,
            amount,
        }),
    }
}

/// A budget of exploration.
#[tactic(auto, unfolding(pdw_walk::specs::Statements::budget_setting))]
pub fn budget_setting(alloc: Global, amount: i64) -> Result<Judged, JudgeFault>
    ensures { Answers (answer_of (spec.budget_setting amount beginning)) result }
{
    let budget = setting(alloc, "budget", 1, MOST_BUDGET, amount)?;
    Ok(Judged::Budget(budget as u32))
}

fn cost_name(part: CostPart) -> &'static str
    ensures { result.now ≡ spec.cost_name part }
{
    match part {
        CostPart::Reader => "reader",
        CostPart::HashReader => "hashreader",
        CostPart::Network => "network",
        CostPart::Writer => "writer",
        CostPart::Bulk => "bulk",
        CostPart::Control => "control",
    }
}

/// A constant of the cost of moving rows.
#[tactic(auto, unfolding(pdw_walk::specs::Statements::cost_setting))]
pub fn cost_setting(alloc: Global, part: CostPart, amount: i64) -> Result<Judged, JudgeFault>
    ensures { Answers (answer_of (spec.cost_setting part amount beginning)) result }
{
    let amount = setting(alloc, cost_name(part), 1, MOST_COST, amount)?;
    Ok(Judged::Cost {
        part,
        amount: amount as u32,
    })
}

fn has_place(statistics: &[(u32, u64, u32)], place: u32) -> bool
    ensures { result ≡ list_any (spec.is_of_place place) statistics.now }
{
    statistics.iter().any(|other| other.0 == place)
}

// The statistics of one column more.
fn new_statistic(
    alloc: Global,
    columns: &[Column],
    before: ListOf<(u32, u64, u32)>,
    statistic: &(Str, i64, i64),
) -> Result<ListOf<(u32, u64, u32)>, JudgeFault>
    ensures { Walks (spec.new_statistic columns.now before statistic.now beginning) result beginning }
{
    let (name, distinct, width) = statistic;
    let place = place_of_column(alloc, columns, name)?;
    if has_place(before.as_slice(), place) {
        return Err(JudgeFault::DuplicateName(name.try_copy(alloc)?));
    }
    let values = setting(alloc, "distinct", 1, MOST_STATISTIC, *distinct)?;
    let bytes = setting(alloc, "width", 1, MOST_WIDTH, *width)?;
    let mut statistics = before;
    statistics.push((place, values, bytes as u32))?;
    Ok(statistics)
}

// The statistics of the columns that are named, from left to right.
#[tactic(auto, using(pdw_resolve::proofs::Turns::turns))]
fn new_statistics(
    alloc: Global,
    columns: &[Column],
    statistics: &[(Str, i64, i64)],
) -> Result<ListOf<(u32, u64, u32)>, JudgeFault>
    ensures { Walks (over (spec.new_statistic columns.now) [] statistics.now beginning) result beginning }
{
    let mut found = ListOf::new(alloc);
    for statistic in statistics {
        found = new_statistic(alloc, columns, found, statistic)?;
    }
    Ok(found)
}

/// Statistics of a table, which has to be there.
#[tactic(auto, unfolding(pdw_walk::specs::Statements::hand, pdw_walk::specs::Statements::known))]
pub fn hand(
    alloc: Global,
    catalog: &Catalog,
    name: &Str,
    rows: i64,
    statistics: &[(Str, i64, i64)],
) -> Result<Judged, JudgeFault>
    ensures { Answers (answer_of (spec.hand catalog.now name.now rows statistics.now beginning)) result }
{
    let Some(table) = catalog.table(name) else {
        return Err(JudgeFault::UnknownTable(name.try_copy(alloc)?));
    };
    let rows = setting(alloc, "rows", 0, MOST_STATISTIC, rows)?;
    let cols = new_statistics(alloc, table.columns.as_slice(), statistics)?;
    Ok(Judged::Hand {
        table: name.try_copy(alloc)?,
        rows,
        cols,
    })
}
