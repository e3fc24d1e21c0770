//! Judged statements.

ghost use Rattle.std.specs.Prelude.{◌≡◌, IfOk};
ghost use Rattle.std.specs.Option.{option_copied, option_map};
ghost use Rattle.pdw_engine.specs.Prepared.{wanted};
ghost use Rattle.pdw_engine.specs.Ready.{plans_in};

use pdw_base::{NoMemory, Str};
use pdw_form::Judged;
use pdw_plan::Plan;
use pdw_planner::Planned;
use std::alloc::Global;
use std::marker::Model;
use std::mem::drop;
use std::slice;

/// The file that a statement wants.
#[derive(Debug, Drop)]
pub struct Want {
    pub name: Str,
}

/// A judged statement with the plan of its query, which is to be executed in the state in which it was prepared.
#[derive(Drop)]
pub struct Prepared {
    work: Judged,
    planned: Option<Planned>,
    want: Option<Want>,
}

impl Model for Prepared {
    ghost use Rattle.std.specs.Prelude.{◌≡◌};
    ghost use Rattle.std.specs.Option.{option_map};
    ghost use Rattle.pdw_engine.specs.Prepared.{wanted};
    ghost use Rattle.pdw_engine.specs.Ready.{Ready};
    ghost use Rattle.pdw_form.specs.contracts.judged.Judged as of_work;
    ghost use Rattle.pdw_planner.specs.contracts.planned.Planned as of_planned;
    ghost use Rattle.std.specs.Coded.{codes};

    ghost Value = { Ready };

    ghost coded = { Prim.hlevel (codes, of_work.the_row.coded, of_planned.the_row.coded) };

    ghost view = { λ prepared. record { work = prepared.work; planned = prepared.planned } };

    ghost invariant = { λ prepared. option_map (λ want. want.name) prepared.want ≡ wanted prepared.work };
}

impl Prepared {
    /// The file of LOAD, None for other statements.
    pub fn want(&self) -> Option<&Want>
        ensures { option_map (λ want. want.name) (option_copied result) ≡ wanted self.now.work }
    {
        self.want.as_ref()
    }

    /// The plan of a SELECT, an EXPLAIN or an EXPLAIN JSON, which no other plan for its query undercuts; none for other statements.
    pub fn plans(&self) -> &[Plan]
        ensures { result.now ≡ plans_in self.now.planned }
    {
        match &self.planned {
            Some(planned) => slice::from_ref(&planned.plan),
            None => &[],
        }
    }

    /// What the statement does, and what its query is planned to.
    pub(crate) fn into_parts(self) -> (Judged, Option<Planned>)
        ensures work { result.0 ≡ self.work }
        ensures planned { result.1 ≡ self.planned }
    {
        (self.work, self.planned)
    }
}

// A copy of the name of the file that is wanted.
fn want_of(alloc: Global, work: &Judged) -> Result<Option<Want>, NoMemory>
    ensures { IfOk result (λ want. option_map (λ want. want.name) want ≡ wanted work.now) }
{
    match work {
        Judged::Load { file, .. } | Judged::CheckPlan { file, .. } => {
            let name = file.try_copy(alloc)?;
            Ok(Some(Want { name }))
        }
        _ => Ok(None),
    }
}

/// A judged statement, whose query was planned to this, with the file that it wants.
pub(crate) fn with_want(
    alloc: Global,
    work: Judged,
    planned: Option<Planned>,
) -> Result<Prepared, NoMemory>
    ensures { IfOk result (λ prepared. prepared ≡ record { work = work; planned = planned }) }
{
    match want_of(alloc, &work) {
        Ok(want) => Ok(Prepared {
            work,
            planned,
            want,
        }),
        Err(error) => {
            drop(planned);
            drop(work);
            Err(error)
        }
    }
}
