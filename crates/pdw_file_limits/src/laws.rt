//! The laws of the plan files of judged queries.

ghost use Rattle.std.specs.Prelude.{◌≡◌, ◌≤◌, ℕ, None, true};
ghost use Rattle.pdw_bind.specs.Bind.{bound};
ghost use Rattle.pdw_catalog.specs.Database.{Database};
ghost use Rattle.pdw_form.specs.Sound.{HaveColumns};
ghost use Rattle.pdw_form.specs.declared.judged.JudgedSelect.{JudgedSelect as Numbered};
ghost use Rattle.pdw_memo.specs.Memo.{IsMemo};
ghost use Rattle.pdw_move.specs.Cost.{AreInRange};
ghost use Rattle.pdw_move.specs.declared.cost.Constants.{Constants as ConstantsValue};
ghost use Rattle.pdw_planjson.specs.Limits.{IsFile, has_numbers};
ghost use Rattle.pdw_planner.specs.Planned.{IsPlanned, cost_in, memo_within};
ghost use Rattle.pdw_planner.specs.declared.planned.Planned.{Planned as PlannedValue};
ghost use Rattle.pdw_stats.specs.Book.{AreInRange as AreStatsInRange, Book};
ghost use Rattle.pdw_syntax.specs.Written.{query_written};
ghost use Rattle.pdw_syntax.specs.declared.query.Select.{Select as Written};
ghost use Rattle.pdw_syntax.specs.declared.statement.Statement.{Statement};
ghost use Rattle.pdw_walk.specs.Forms.{Judges};
ghost use Rattle.pdw_ways.specs.Shape.{query_fault, shape_of};
ghost use Rattle.pdw_ways.specs.Ways.{Costs as CostsOfMoves};
ghost use Rattle.pdw_ways.specs.declared.plan.Plan.{Plan as PlanValue};

/// What is planned for a statement that the judgement accepts keeps the limits of plan files: its plan has fewer than 16,384
/// nodes and a height of at most 4,096, and its cost and its bounds are below 10^32. So the text of its plan file reads back as
/// the file. Tables have columns, as every appliance's have; the SELECT is one that some text of the grammar means; the
/// statistics and the constants are in their ranges; and there are 1 to 16 compute nodes.
pub fn planned_files_keep_their_limits()
    ensures { (database : Database) (x : Statement) (s : Written) (j : Numbered) → HaveColumns database.tables → query_written s.query ≡ true → Judges database.tables x s j
        → (book : Book) → AreStatsInRange book → (n budget : ℕ) → 1 ≤ n → n ≤ 16 → (constants : ConstantsValue) → AreInRange constants
        → (planned : PlannedValue) → IsPlanned database.tables book n budget constants (bound j.query) planned → (is : IsMemo planned.memo)
        → IsFile (record { plan = planned.plan; bounds = planned.bounds; cost = cost_in planned is book n constants }) }
{}

/// A plan for the query of a statement that the judgement accepts has numbers as plan files write them (`has_numbers`): its groups
/// have numbers below 2^32, and the columns by whose hash rows of it stand have numbers up to 65,535. Tables have columns, as every
/// appliance's have, and the SELECT is one that some text of the grammar means.
pub fn planned_files_have_small_numbers()
    ensures { (database : Database) (x : Statement) (s : Written) (j : Numbered) → HaveColumns database.tables → query_written s.query ≡ true → Judges database.tables x s j
        → (budget : ℕ) (costs : CostsOfMoves) (plan : PlanValue) → query_fault (memo_within budget database.tables (bound j.query)).groups (shape_of (memo_within budget database.tables (bound j.query)).groups costs plan) ≡ None → has_numbers plan ≡ true }
{}
