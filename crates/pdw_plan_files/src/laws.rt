//! The laws of plan files and of the verdicts on them, each the contract of a function.

ghost use Rattle.std.specs.Prelude.{◌≡◌, ℕ, true, List};
ghost use Rattle.pdw_algebra.specs.declared.tree.Tree.{Tree as AnyTree};
ghost use Rattle.pdw_answer.specs.declared.answer.PlanVerdict.{PlanVerdict as VerdictValue};
ghost use Rattle.pdw_answer.specs.declared.answer.PlanVerdict.TheVariants.{Accepted};
ghost use Rattle.pdw_catalog.specs.Catalog.{Tables};
ghost use Rattle.pdw_groups.specs.declared.group.Group.{Group as GroupValue};
ghost use Rattle.pdw_memo.specs.Memo.{IsMemo};
ghost use Rattle.pdw_move.specs.declared.cost.Constants.{Constants as ConstantsValue};
ghost use Rattle.pdw_plan.specs.Cost.{costs_in};
ghost use Rattle.pdw_plan_files.specs.Verdict.{HasVerdict, IsVerdictOn};
ghost use Rattle.pdw_plan_files.specs.Written.{IsPlanFile, ReadsBack, file_of};
ghost use Rattle.pdw_planjson.specs.Limits.{IsFile, has_numbers};
ghost use Rattle.pdw_planner.specs.Planned.{IsPlanned, cost_in};
ghost use Rattle.pdw_planner.specs.declared.planned.Planned.{Planned as PlannedValue};
ghost use Rattle.pdw_stats.specs.Book.{Book};
ghost use Rattle.pdw_ways.specs.Ways.{Costs};

/// There is one verdict on the bytes of a file, whatever they are: one cost with which a plan is accepted, or one fault with its
/// numbers.
pub fn a_plan_file_has_one_verdict()
    ensures { (groups : List GroupValue) (costs : Costs) (content : List ℕ) (first second : VerdictValue) → IsVerdictOn groups costs content first → IsVerdictOn groups costs content second → first ≡ second }
{}

/// There is a verdict on the bytes of each file, whatever they are.
pub fn each_file_has_a_verdict()
    ensures { (groups : List GroupValue) (costs : Costs) (content : List ℕ) → HasVerdict groups costs content }
{}

/// The same file is read from the bytes of the plan file of what is planned, where it keeps the limits of plan files, and its
/// groups and columns have numbers that their types hold.
pub fn a_plan_file_reads_back()
    ensures { (planned : PlannedValue) (book : Book) (n : ℕ) (constants : ConstantsValue) → IsMemo planned.memo → ((is : IsMemo planned.memo) → IsFile (file_of planned is book n constants)) → has_numbers planned.plan ≡ true
        → (bytes : List ℕ) → IsPlanFile planned book n constants bytes → ReadsBack planned book n constants bytes }
{}

/// The plan file of what is planned, within the limits of plan files, is accepted with its cost over the memo, the statistics, the
/// compute nodes and the constants that it was planned by.
pub fn a_printed_plan_is_accepted()
    ensures { (tables : Tables) (book : Book) (n budget : ℕ) (constants : ConstantsValue) (tree : AnyTree) (planned : PlannedValue) → IsPlanned tables book n budget constants tree planned → (is : IsMemo planned.memo) → IsFile (file_of planned is book n constants)
        → (bytes : List ℕ) → ReadsBack planned book n constants bytes → (verdict : VerdictValue) → IsVerdictOn planned.memo.groups (costs_in planned.memo is book n constants) bytes verdict → verdict ≡ Accepted (cost_in planned is book n constants) }
{}
