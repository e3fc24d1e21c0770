//! The law of plan files that are printed and checked.

ghost use Rattle.std.specs.Prelude.{◌≡◌, ◌≤◌, ℕ, true, List, length, None, Some};
ghost use Rattle.pdw_answer.specs.declared.answer.Answer.TheVariants as answers;
ghost use Rattle.pdw_answer.specs.declared.answer.Answer.{Answer as AnswerOf};
ghost use Rattle.pdw_base.specs.declared.limits.TheConstants.{MOST_FILE_BYTES};
ghost use Rattle.pdw_engine.specs.Executes.{Gives};
ghost use Rattle.pdw_engine.specs.Plain.{Plain, SamePlain};
ghost use Rattle.pdw_engine.specs.Reachable.{IsReachable};
ghost use Rattle.pdw_plan_laws.specs.Accepts.{AcceptsPrinted};
ghost use Rattle.pdw_syntax.specs.Written.{query_written};
ghost use Rattle.pdw_syntax.specs.declared.query.Select.{Select as SelectOf};
ghost use Rattle.pdw_syntax.specs.declared.statement.Statement.TheVariants as statements;

use pdw_file_limits::{planned_files_have_small_numbers, planned_files_keep_their_limits};
use pdw_plan_exists::moves_cost_the_same_whatever_the_tree;
use pdw_plan_files::{a_plan_file_reads_back, each_file_has_a_verdict};

/// CHECK PLAN accepts what EXPLAIN JSON prints: where EXPLAIN JSON of a SELECT answers these bytes over a plain state that a script
/// reaches, at 1 to 16 compute nodes, CHECK PLAN of the same SELECT over the state that it leaves, with these bytes as the content
/// of its file, answers acceptance, with the cost of the plan in the file, and both leave the plain state as it was (`accepted`). The
/// SELECT is one that some text of the grammar means. Where the bytes are within the limit of files, CHECK PLAN answers (`answered`).
pub fn what_is_printed_is_accepted()
    ensures accepted { (nodes : ℕ) → 1 ≤ nodes → nodes ≤ 16 → (old : Plain) → IsReachable nodes old → (select : SelectOf) → query_written select.query ≡ true
        → (bytes : List ℕ) (printed : Plain) → Gives old (statements.ExplainJson select) None (answers.Json bytes) printed
        → (file : List ℕ) (answer : AnswerOf) (later : Plain) → Gives printed (statements.CheckPlan file select) (Some bytes) answer later
        → AcceptsPrinted old select bytes answer × SamePlain old printed × SamePlain old later }
    ensures answered { (old : Plain) (select : SelectOf) (bytes : List ℕ) (printed : Plain) → Gives old (statements.ExplainJson select) None (answers.Json bytes) printed → length bytes ≤ MOST_FILE_BYTES
        → (file : List ℕ) → (answer : AnswerOf) × Gives printed (statements.CheckPlan file select) (Some bytes) answer printed }
{
    planned_files_keep_their_limits();
    planned_files_have_small_numbers();
    a_plan_file_reads_back();
    each_file_has_a_verdict();
    moves_cost_the_same_whatever_the_tree();
}
