//! Sessions: the appliance with what its statements change.

ghost use Rattle.std.specs.Prelude.{◌≡◌, ◌≤◌, ℕ, List, Option, Some, None, true, Ok, IfOk, IfErr, OnErr, OnOk};
ghost use Rattle.std.specs.List.{AllByRecursion};
ghost use Rattle.std.specs.Option.{option_copied};
ghost use Rattle.pdw_bind.specs.Bind.{bound};
ghost use Rattle.pdw_memo.specs.Memo.{IsPlannable};
ghost use Rattle.pdw_move.specs.Cost.{AreInRange};
ghost use Rattle.pdw_syntax.specs.declared.query.Select.{Select as SelectOf};
ghost use Rattle.pdw_syntax.specs.declared.statement.Statement.TheVariants as statements;
ghost use Rattle.pdw_syntax.specs.declared.statement.Statement.{Statement as StatementOf};
ghost use Rattle.pdw_form.specs.Sound.{HaveColumns};
ghost use Rattle.pdw_syntax.specs.Written.{query_written, statement_written};
ghost use Rattle.pdw_catalog.specs.Appliance.{CanCreate, HasTable};
ghost use Rattle.pdw_engine.specs.Executes.{ChecksContent, Gives, IsGiven, LoadsContent, Printed, Selects, Shown, Shows, StopsLoad, StopsWork};
ghost use Rattle.pdw_engine.specs.Plain.{SamePlain, budget_set, constant_set, plain_of, with_handed, with_measured, with_table, without_table};
ghost use Rattle.pdw_engine.specs.Prepared as spec;
ghost use Rattle.pdw_answer.specs.declared.answer.Answer.TheVariants as answers;
ghost use Rattle.pdw_engine.specs.Prepared.{IsPrepared, Prepares, StopsFirst};
ghost use Rattle.pdw_engine.specs.Ready.{HasPlan, IsPlannedIn, planned_form, plans_in};
ghost use Rattle.pdw_engine.specs.State.{first_state};
ghost use Rattle.pdw_engine.specs.Statistics.{AreNumbers};
ghost use Rattle.pdw_walk.specs.Statements.{judgement};
ghost use Rattle.pdw_form.specs.declared.judged.Judged.TheVariants as judged;

use crate::prepared::{Prepared, with_want};
use crate::select::select;
use crate::settings::Settings;
use crate::statistics::handed;
use crate::stop::Stop;
use pdw_answer::{Answer, Refusal};
use pdw_answering::{check_query, explain_planned, print_planned};
use pdw_base::{NoMemory, NodeCount, Str};
use pdw_catalog::{Appliance, Table};
use pdw_form::{Judged, JudgedSelect};
use pdw_load::{LoadError, read_table};
use pdw_planner::{Ground, Planned, plan_query};
use pdw_scope::judge;
use pdw_stats::{StatsBook, default_stats, measure};
use pdw_syntax::{CostPart, Statement};
use pdw_walk::JudgeFault;
use std::alloc::Global;
use std::marker::Model;
use std::mem::drop;

/// An appliance, the statistics of its tables and the settings, and what is executed over them.
#[derive(Drop)]
pub struct Session {
    appliance: Appliance,
    book: StatsBook,
    settings: Settings,
}

impl Model for Session {
    ghost use Rattle.pdw_engine.specs.State.{IsOrderly, State};

    ghost Value = { State };

    ghost view = { λ session. record { contents = session.appliance; book = session.book; settings = session.settings } };

    ghost invariant = { λ session. IsOrderly (record { contents = session.appliance; book = session.book; settings = session.settings }) };
}

impl Session {
    /// A session without tables, in which nothing was set.
    pub fn new(alloc: Global, n: NodeCount) -> Result<Session, NoMemory>
        ensures { IfOk result (λ session. session ≡ first_state n) }
    {
        Ok(Session {
            appliance: Appliance::new(alloc, n)?,
            book: StatsBook::new(alloc),
            settings: Settings::usual(),
        })
    }

    pub fn appliance(&self) -> &Appliance
        ensures { result.now ≡ self.now.contents }
    {
        &self.appliance
    }

    /// What a statement does, with a least plan of its query, or why it is refused: a form that can't be executed yet, or else
    /// its first fault. No statement that the grammar gives fails the condition.
    pub fn prepare(&self, alloc: Global, stmt: &Statement) -> Result<Prepared, Stop>
        requires { statement_written stmt.now ≡ true }
        ensures prepared { IfOk result (λ prepared. Prepares self.now.contents.tables stmt.now prepared.work) }
        ensures planned { IfOk result (HasPlan self.now) }
        ensures stop { IfErr result (StopsFirst self.now.contents.tables stmt.now) }
    {
        if !is_built(stmt) {
            return Err(Stop::Refused(Refusal::NotBuilt));
        }
        match judge(alloc, self.appliance.catalog(), stmt) {
            Ok(work) => Ok(self.with_plan(alloc, work)?),
            Err(JudgeFault::Memory) => Err(Stop::Memory),
            Err(fault) => Err(Stop::Refused(Refusal::Judge(fault))),
        }
    }

    // A judged statement with the plan of its query.
    fn with_plan(&self, alloc: Global, work: Judged) -> Result<Prepared, NoMemory>
        requires { IsPrepared self.now.contents.tables work }
        ensures work { IfOk result (λ prepared. prepared.work ≡ work) }
        ensures planned { IfOk result (HasPlan self.now) }
    {
        match self.plan_of(alloc, &work) {
            Ok(planned) => with_want(alloc, work, planned),
            Err(error) => {
                drop(work);
                Err(error)
            }
        }
    }

    // What the query of a judged statement is planned to, where it is one whose query is planned.
    fn plan_of(&self, alloc: Global, work: &Judged) -> Result<Option<Planned>, NoMemory>
        requires { IsPrepared self.now.contents.tables work.now }
        ensures { IfOk result (IsPlannedIn self.now (planned_form work.now)) }
    {
        self.tables_have_columns();
        match work {
            Judged::Select(form) | Judged::Explain(form) | Judged::ExplainJson(form) => {
                Ok(Some(self.planned(alloc, form)?))
            }
            _ => Ok(None),
        }
    }

    // A least plan of a query.
    fn planned(&self, alloc: Global, form: &JudgedSelect) -> Result<Planned, NoMemory>
        requires { IsPlannable self.now.contents.tables (bound form.now.query) }
        ensures { IfOk result (λ planned. IsPlannedIn self.now (Some form.now) (Some planned)) }
    {
        plan_query(alloc, &form.query, &self.basis())
    }

    // What queries are planned over.
    fn basis(&self) -> Ground<'_>
        ensures catalog { result.catalog.now ≡ self.now.contents.tables }
        ensures book { result.book.now ≡ self.now.book }
        ensures nodes { result.n ≡ self.now.contents.nodes }
        ensures budget { result.budget ≡ self.now.settings.budget }
        ensures constants { result.constants.now ≡ self.now.settings.constants }
        ensures range { AreInRange self.now.settings.constants }
    {
        Ground {
            catalog: self.appliance.catalog(),
            book: &self.book,
            n: self.appliance.nodes(),
            budget: self.settings.budget,
            constants: &self.settings.constants,
        }
    }

    /// Executes a statement that was prepared in this state, with the content of the file that it wants. EXPLAIN and EXPLAIN JSON
    /// show the plan with which it was prepared. Where it gives no answer, the session is as it was; LOAD alone may be refused here.
    pub fn execute(
        &mut self,
        alloc: Global,
        p: Prepared,
        file: Option<&[u8]>,
    ) -> Result<Answer, Stop>
        requires prepared { IsPrepared self.old.contents.tables p.work }
        requires planned { HasPlan self.old p }
        requires given { IsGiven p.work (option_copied file) }
        ensures answer { IfOk result (λ answer. (statement : StatementOf) → statement_written statement ≡ true → Prepares self.old.contents.tables statement p.work → Gives (plain_of self.old) statement (option_copied file.entry) answer (plain_of self.new)) }
        ensures shown { IfOk result (λ answer. AllByRecursion (λ plan. Shows (plain_of self.old) p.work plan answer) (plans_in p.planned)) }
        ensures stop { IfErr result (StopsWork (plain_of self.old) p.work (option_copied file.entry)) }
        ensures kept { OnErr result (self.new ≡ self.old) }
    {
        match p.into_parts() {
            (work, Some(planned)) => {
                let answer = self.ask(alloc, &work, planned);
                drop(work);
                Ok(answer?)
            }
            (work, None) => self.act(alloc, work, file),
        }
    }

    // What a query answers that was planned in this state.
    fn ask(&self, alloc: Global, work: &Judged, planned: Planned) -> Result<Answer, NoMemory>
        requires prepared { IsPrepared self.now.contents.tables work.now }
        requires planned { IsPlannedIn self.now (planned_form work.now) (Some planned) }
        ensures answer { IfOk result (λ answer. (statement : StatementOf) → statement_written statement ≡ true → Prepares self.now.contents.tables statement work.now → (file : Option (List ℕ)) → IsGiven work.now file → Gives (plain_of self.now) statement file answer (plain_of self.now)) }
        ensures shown { IfOk result (Shows (plain_of self.now) work.now planned.plan) }
    {
        self.tables_have_columns();
        match work {
            Judged::Select(form) => self.select(alloc, form),
            Judged::Explain(form) => self.explain(alloc, form, &planned),
            Judged::ExplainJson(form) => self.explain_json(alloc, form, planned),
            _ => unreachable!(),
        }
    }

    // Does what has no query.
    fn act(&mut self, alloc: Global, work: Judged, file: Option<&[u8]>) -> Result<Answer, Stop>
        requires prepared { IsPrepared self.old.contents.tables work }
        requires unplanned { planned_form work ≡ None }
        requires given { IsGiven work (option_copied file) }
        ensures answer { IfOk result (λ answer. (statement : StatementOf) → statement_written statement ≡ true → Prepares self.old.contents.tables statement work → Gives (plain_of self.old) statement (option_copied file.entry) answer (plain_of self.new)) }
        ensures stop { IfErr result (StopsWork (plain_of self.old) work (option_copied file.entry)) }
        ensures kept { OnErr result (self.new ≡ self.old) }
    {
        self.tables_have_columns();
        match work {
            Judged::Create(table) => Ok(self.create(alloc, table)?),
            Judged::Drop(name) => Ok(self.drop_table(&name)),
            Judged::Load { table, .. } => self.load(alloc, &table, file.unwrap()),
            Judged::Measure(name) => Ok(self.measure(alloc, &name)?),
            Judged::Hand { table, rows, cols } => {
                Ok(self.hand(alloc, &table, rows, cols.as_slice())?)
            }
            Judged::Budget(amount) => Ok(self.set_budget(amount)),
            Judged::Cost { part, amount } => Ok(self.set_constant(part, amount)),
            Judged::CheckPlan { select, .. } => {
                Ok(self.check_plan(alloc, &select, file.unwrap())?)
            }
            _ => unreachable!(),
        }
    }

    // Makes an empty table, with the statistics of one of which nothing is known.
    fn create(&mut self, alloc: Global, table: Table) -> Result<Answer, NoMemory>
        requires { CanCreate self.old.contents table }
        ensures answer { IfOk result (λ answer. answer ≡ answers.Done) }
        ensures created { OnOk result (SamePlain (with_table table (plain_of self.old)) (plain_of self.new)) }
        ensures kept { OnErr result (self.new ≡ self.old) }
    {
        let name = table.name.try_copy(alloc)?;
        let stats = default_stats(alloc, &table)?;
        self.book.put(alloc, &name, stats)?;
        if let Err(error) = self.appliance.create_table(alloc, table) {
            self.book.remove(&name);
            return Err(error);
        }
        Ok(Answer::Done)
    }

    // Removes a table with its rows and its statistics.
    fn drop_table(&mut self, name: &Str) -> Answer
        requires { HasTable self.old.contents name.now }
        ensures answer { result ≡ answers.Done }
        ensures dropped { SamePlain (without_table name.now (plain_of self.old)) (plain_of self.new) }
    {
        self.appliance.drop_table(name);
        self.book.remove(name);
        Answer::Done
    }

    // Puts the statistics that a table has.
    fn measure(&mut self, alloc: Global, name: &Str) -> Result<Answer, NoMemory>
        requires { HasTable self.old.contents name.now }
        ensures answer { IfOk result (λ answer. answer ≡ answers.Done) }
        ensures measured { OnOk result (SamePlain (with_measured name.now (plain_of self.old)) (plain_of self.new)) }
        ensures kept { OnErr result (self.new ≡ self.old) }
    {
        let stats = measure(alloc, &self.appliance, name)?;
        self.book.put(alloc, name, stats)?;
        Ok(Answer::Done)
    }

    // Puts the statistics of a table that are handed over.
    fn hand(
        &mut self,
        alloc: Global,
        name: &Str,
        rows: u64,
        numbers: &[(u32, u64, u32)],
    ) -> Result<Answer, NoMemory>
        requires known { HasTable self.old.contents name.now }
        requires range { AreNumbers rows numbers.now }
        ensures answer { IfOk result (λ answer. answer ≡ answers.Done) }
        ensures handed { OnOk result (SamePlain (with_handed name.now rows numbers.now (plain_of self.old)) (plain_of self.new)) }
        ensures kept { OnErr result (self.new ≡ self.old) }
    {
        let Some(had) = self.book.get(name) else {
            return Ok(Answer::Done);
        };
        let stats = handed(alloc, rows, numbers, had)?;
        self.book.put(alloc, name, stats)?;
        Ok(Answer::Done)
    }

    fn set_budget(&mut self, amount: u32) -> Answer
        requires { (1 ≤ amount) × (amount ≤ 100000) }
        ensures answer { result ≡ answers.Done }
        ensures set { SamePlain (budget_set amount (plain_of self.old)) (plain_of self.new) }
    {
        self.settings = self.settings.with_budget(amount);
        Answer::Done
    }

    fn set_constant(&mut self, part: CostPart, amount: u32) -> Answer
        requires { (1 ≤ amount) × (amount ≤ 1000) }
        ensures answer { result ≡ answers.Done }
        ensures set { SamePlain (constant_set part amount (plain_of self.old)) (plain_of self.new) }
    {
        self.settings = self.settings.with_constant(part, amount);
        Answer::Done
    }

    // Adds the records of a file to a table.
    fn load(&mut self, alloc: Global, name: &Str, content: &[u8]) -> Result<Answer, Stop>
        requires { HasTable self.old.contents name.now }
        ensures loaded { IfOk result (λ answer. LoadsContent (plain_of self.old) name.now content.now answer (plain_of self.new)) }
        ensures stop { IfErr result (StopsLoad (plain_of self.old) name.now content.now) }
        ensures kept { OnErr result (self.new ≡ self.old) }
    {
        let table = self.appliance.table(name);
        let most = table.placing.most_rows();
        let rows = match read_table(alloc, content, table) {
            Ok(rows) => rows,
            Err(LoadError::Memory) => return Err(Stop::Memory),
            Err(fault) => return Err(Stop::Refused(Refusal::Load(fault))),
        };
        if most - self.appliance.row_count(name) < rows.len() {
            return Err(Stop::Refused(Refusal::Rows { most: most as u64 }));
        }
        let count = rows.len() as u64;
        self.appliance.append_rows(alloc, name, rows)?;
        Ok(Answer::Loaded(count))
    }

    // The rows of a SELECT, which has this numbered form.
    fn select(&self, alloc: Global, form: &JudgedSelect) -> Result<Answer, NoMemory>
        ensures { IfOk result (λ answer. (s : SelectOf) → query_written s.query ≡ true → judgement self.now.contents.tables (statements.Select s) ≡ Ok (judged.Select form.now) → Selects (plain_of self.now) s answer (plain_of self.now)) }
    {
        self.tables_have_columns();
        Ok(Answer::Rows(select(alloc, &self.appliance, form)?))
    }

    // The text of the plan of an EXPLAIN, which has this numbered form.
    fn explain(
        &self,
        alloc: Global,
        form: &JudgedSelect,
        planned: &Planned,
    ) -> Result<Answer, NoMemory>
        requires plannable { IsPlannable self.now.contents.tables (bound form.now.query) }
        requires planned { IsPlannedIn self.now (Some form.now) (Some planned.now) }
        ensures { IfOk result (Shown (plain_of self.now) form.now planned.now.plan) }
    {
        Ok(Answer::Plan(explain_planned(alloc, planned, &self.basis())?))
    }

    // The plan file of an EXPLAIN JSON, which has this numbered form.
    fn explain_json(
        &self,
        alloc: Global,
        form: &JudgedSelect,
        planned: Planned,
    ) -> Result<Answer, NoMemory>
        requires plannable { IsPlannable self.now.contents.tables (bound form.now.query) }
        requires planned { IsPlannedIn self.now (Some form.now) (Some planned) }
        ensures { IfOk result (Printed (plain_of self.now) form.now planned.plan) }
    {
        Ok(Answer::Json(print_planned(alloc, planned, &self.basis())?))
    }

    // What is found of a plan file for the query of this numbered form.
    fn check_plan(
        &self,
        alloc: Global,
        form: &JudgedSelect,
        content: &[u8],
    ) -> Result<Answer, NoMemory>
        requires { IsPlannable self.now.contents.tables (bound form.now.query) }
        ensures { IfOk result (λ answer. ChecksContent (plain_of self.now) form.now content.now answer (plain_of self.now)) }
    {
        let verdict = check_query(alloc, &form.query, content, &self.basis())?;
        Ok(Answer::Checked(verdict))
    }

    // What the law of the tree asks of tables.
    fn tables_have_columns(&self)
        ensures { HaveColumns self.now.contents.tables }
    {
        let _ = self.appliance.catalog();
    }
}

// Whether statements of this form are executed.
fn is_built(statement: &Statement) -> bool
    ensures { result ≡ spec.is_built statement.now }
{
    matches!(
        statement,
        Statement::CreateNamed { .. }
            | Statement::Drop(_)
            | Statement::Load { .. }
            | Statement::Measure(_)
            | Statement::Hand { .. }
            | Statement::Budget(_)
            | Statement::Cost { .. }
            | Statement::Select(_)
            | Statement::Explain(_)
            | Statement::ExplainJson(_)
            | Statement::CheckPlan { .. }
    )
}
