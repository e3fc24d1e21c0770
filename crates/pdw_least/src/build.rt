//! Least plans, read off the log of the search.

ghost use Rattle.std.specs.Prelude.{◌≡◌, ◌<◌, [], ◌∷◌, IfOk, IsSome, if◌then◌else◌};
ghost use Rattle.std.specs.List.{AllByRecursion};
ghost use Rattle.pdw_ways.specs.declared.plan.Plan.TheVariants as plans;
ghost use Rattle.pdw_least.specs.Built.{IsBuilt, IsLast, IsLastIn, IsReadOff};
ghost use Rattle.pdw_least.specs.Log.{IsLog, bounds_after, is_same_made as same_made};
ghost use Rattle.pdw_least.specs.Premises.{costs_of};
ghost use Rattle.pdw_least.specs.Runs.{HasFewNodes, HasShortRuns, IsWithinFour, runs_of};

use crate::{Entry, Search, Table};
use pdw_base::NoMemory;
use pdw_move::{Move, Prop};
use pdw_rules::is_same;
use pdw_ways::{Made, Plan, Way};
use sqlite_items::{Boxed, Items, at};
use std::alloc::Global;
use std::mem::drop;

// The number of an entry, and its way.
#[derive(Clone, Copy)]
struct Last {
    number: usize,
    way: Way,
}

fn is_same_made(first: Made, second: Made) -> bool
    ensures { result ≡ same_made first second }
{
    first.group.0 == second.group.0 && is_same(first.prop, second.prop)
}

// This entry, where it makes the rows, or the one that was found.
fn newer(found: Option<usize>, number: usize, entry: Entry, made: Made) -> Option<usize>
    ensures { result ≡ (if same_made entry.made made then Some number else found) }
{
    if is_same_made(entry.made, made) {
        Some(number)
    } else {
        found
    }
}

// The number of the last entry that makes these rows.
fn last_number(log: &[Entry], made: Made) -> Option<usize>
    ensures { IsLastIn log.now made result }
{
    let mut found = None;
    for (number, entry) in log.iter().enumerate() {
        found = newer(found, number, *entry, made);
    }
    found
}

// ---- nodes

fn over_one(alloc: Global, made: Made, child: Plan) -> Result<Plan, NoMemory>
    ensures { IfOk result (λ plan. plan ≡ plans.Op made.group made.prop (child ∷ [])) }
{
    let mut children = Items::new(alloc);
    children.push(child)?;
    Ok(Plan::Op {
        group: made.group,
        prop: made.prop,
        children,
    })
}

fn over_two(alloc: Global, made: Made, left: Plan, right: Plan) -> Result<Plan, NoMemory>
    ensures { IfOk result (λ plan. plan ≡ plans.Op made.group made.prop (left ∷ right ∷ [])) }
{
    let mut children = Items::new(alloc);
    match children.push(left) {
        Ok(()) => (),
        Err(stop) => {
            drop(right);
            return Err(NoMemory::from(stop));
        }
    }
    children.push(right)?;
    Ok(Plan::Op {
        group: made.group,
        prop: made.prop,
        children,
    })
}

fn moved(alloc: Global, mv: Move, child: Plan) -> Result<Plan, NoMemory>
    ensures { IfOk result (λ plan. plan ≡ plans.Moved mv child) }
{
    let child = Boxed::new(alloc, child)?;
    Ok(Plan::Moved { mv, child })
}

fn freed(alloc: Global, to: Prop, child: Plan) -> Result<Plan, NoMemory>
    ensures { IfOk result (λ plan. plan ≡ plans.Free to child) }
{
    let child = Boxed::new(alloc, child)?;
    Ok(Plan::Free { to, child })
}

impl Search<'_> {
    // The last entry that makes these rows.
    fn last(&self, log: &[Entry], made: Made) -> Last
        requires log { IsLog self.now.groups.now (costs_of self.now.costing.now) log.now }
        requires reached { IsSome (bounds_after log.now made) }
        ensures { IsLast self.now.groups.now (costs_of self.now.costing.now) log.now made result.number result.way }
    {
        let Some(number) = last_number(log, made) else {
            unreachable!();
        };
        let Some(entry) = at(log, number) else {
            unreachable!();
        };
        Last {
            number,
            way: entry.way,
        }
    }

    fn plan_of(&self, alloc: Global, log: &[Entry], made: Made) -> Result<Plan, NoMemory>
        requires log { IsLog self.now.groups.now (costs_of self.now.costing.now) log.now }
        requires reached { IsSome (bounds_after log.now made) }
        ensures { IfOk result (λ plan. IsReadOff self.now.groups.now (costs_of self.now.costing.now) log.now plan made) }
    {
        let last = self.last(log, made);
        let before = &log[..last.number];
        match last.way {
            Way::Scan => Ok(Plan::Scan {
                group: made.group,
                prop: made.prop,
            }),
            Way::One(child) => {
                let below = self.plan_of(alloc, before, child)?;
                over_one(alloc, made, below)
            }
            Way::Two(left, right) => {
                let first = self.plan_of(alloc, before, left)?;
                match self.plan_of(alloc, before, right) {
                    Ok(second) => over_two(alloc, made, first, second),
                    Err(stop) => {
                        drop(first);
                        Err(stop)
                    }
                }
            }
            Way::Moved(mv) => {
                let source = Made {
                    group: made.group,
                    prop: mv.from(),
                };
                let below = self.plan_of(alloc, before, source)?;
                moved(alloc, mv, below)
            }
            Way::Free(prop) => {
                let source = Made {
                    group: made.group,
                    prop,
                };
                let below = self.plan_of(alloc, before, source)?;
                freed(alloc, made.prop, below)
            }
        }
    }

    /// A plan for the rows of a group under a property, of exactly the cost that the table has. No property occurs twice in a
    /// run of moves and free changes at one group, so a run has at most four of them, and the plan at most five nodes for each
    /// scan and operator.
    pub fn build(&self, alloc: Global, table: &Table, made: Made) -> Result<Plan, NoMemory>
        requires log { IsLog self.now.groups.now (costs_of self.now.costing.now) table.now.log }
        requires reached { IsSome (bounds_after table.now.log made) }
        ensures plan { IfOk result (λ plan. IsBuilt self.now.groups.now (costs_of self.now.costing.now) plan made (bounds_after table.now.log made)) }
        ensures runs { IfOk result (λ plan. HasShortRuns plan) }
        ensures steps { IfOk result (λ plan. AllByRecursion IsWithinFour (runs_of plan)) }
        ensures few { IfOk result (λ plan. HasFewNodes self.now.groups.now (costs_of self.now.costing.now) plan) }
    {
        self.plan_of(alloc, table.log.as_slice(), made)
    }
}
