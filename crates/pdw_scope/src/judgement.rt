//! The judgement of a statement.

ghost use Rattle.pdw_walk.specs.Statements as spec;
ghost use Rattle.pdw_walk.specs.Statements.{Answers, answer_of, judgement};
ghost use Rattle.pdw_walk.specs.Walk.{beginning};
ghost use Rattle.pdw_form.specs.declared.judged.Judged.TheVariants as judged;

use crate::create::create;
use crate::select::judge_select;
use crate::settings::{budget_setting, cost_setting, hand};
use pdw_base::Str;
use pdw_catalog::Catalog;
use pdw_form::Judged;
use pdw_syntax::{Select, Statement};
use pdw_walk::JudgeFault;
use std::alloc::Global;
use std::mem::drop;

// What is done with a table, which has to be there.
#[tactic(auto, unfolding(pdw_walk::specs::Statements::with_known, pdw_walk::specs::Statements::known))]
fn with_known(
    alloc: Global,
    catalog: &Catalog,
    name: &Str,
    work: Judged,
) -> Result<Judged, JudgeFault>
    ensures { Answers (answer_of (spec.with_known catalog.now name.now work beginning)) result }
{
    match catalog.table(name) {
        Some(_) => Ok(work),
        None => {
            drop(work);
            Err(JudgeFault::UnknownTable(name.try_copy(alloc)?))
        }
    }
}

// Rows of a file are loaded into a table.
fn load(alloc: Global, catalog: &Catalog, table: &Str, file: &Str) -> Result<Judged, JudgeFault>
    ensures { Answers (answer_of (spec.with_known catalog.now table.now (judged.Load table.now file.now) beginning)) result }
{
    let work = Judged::Load {
        table: table.try_copy(alloc)?,
        file: file.try_copy(alloc)?,
    };
    with_known(alloc, catalog, table, work)
}

// A plan in a file is checked against a SELECT.
fn check_plan(
    alloc: Global,
    catalog: &Catalog,
    file: &Str,
    select: &Select,
) -> Result<Judged, JudgeFault>
    ensures { Answers (answer_of (spec.plan_check catalog.now file.now select.now beginning)) result }
{
    Ok(Judged::CheckPlan {
        file: file.try_copy(alloc)?,
        select: judge_select(alloc, catalog, select)?,
    })
}

/// What a statement does, with numbers in place of names, or its first fault.
#[tactic(auto, unfolding(pdw_walk::specs::Statements::statement))]
pub fn judge(alloc: Global, catalog: &Catalog, stmt: &Statement) -> Result<Judged, JudgeFault>
    ensures { Answers (judgement catalog.now stmt.now) result }
{
    match stmt {
        Statement::CreateNamed {
            table,
            columns,
            hash,
        } => create(alloc, catalog, table, columns.as_slice(), hash),
        Statement::Drop(name) => {
            let work = Judged::Drop(name.try_copy(alloc)?);
            with_known(alloc, catalog, name, work)
        }
        Statement::Load { table, file } => load(alloc, catalog, table, file),
        Statement::Measure(name) => {
            let work = Judged::Measure(name.try_copy(alloc)?);
            with_known(alloc, catalog, name, work)
        }
        Statement::Hand { table, rows, cols } => {
            hand(alloc, catalog, table, *rows, cols.as_slice())
        }
        Statement::Budget(amount) => budget_setting(alloc, *amount),
        Statement::Cost { part, amount } => cost_setting(alloc, *part, *amount),
        Statement::Select(select) => Ok(Judged::Select(judge_select(alloc, catalog, select)?)),
        Statement::Explain(select) => Ok(Judged::Explain(judge_select(alloc, catalog, select)?)),
        Statement::ExplainJson(select) => {
            Ok(Judged::ExplainJson(judge_select(alloc, catalog, select)?))
        }
        Statement::Profile(select) => Ok(Judged::Profile(judge_select(alloc, catalog, select)?)),
        Statement::CheckPlan { file, select } => check_plan(alloc, catalog, file, select),
    }
}
