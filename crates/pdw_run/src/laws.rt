//! Laws of scripts and of lawful outputs.

ghost use Rattle.std.specs.Prelude.{◌≡◌, ◌≤◌, ℕ, List};
ghost use Rattle.pdw_syntax.specs.declared.statement.Statement.{Statement as StatementOf};
ghost use Rattle.pdw_run.specs.Output.{BeginsOutput, Cut, Finished, Held, Outputs, Refused, TellsAll};
ghost use Rattle.pdw_run.specs.Reading.{IsScript, IsTextFault};
ghost use Rattle.pdw_run.specs.Trace.{Trace};

use pdw_plan_exists::each_query_has_a_least_plan;

/// The bytes of a script say one list of statements, or else one line refuses them.
pub fn a_script_says_one_thing()
    ensures statements { (script : List ℕ) (some others : List StatementOf) → IsScript script some → IsScript script others → some ≡ others }
    ensures line { (script line other : List ℕ) → IsTextFault script line → IsTextFault script other → line ≡ other }
    ensures either { (script line : List ℕ) (statements : List StatementOf) → IsScript script statements → ¬ (IsTextFault script line) }
{}

/// What a failing sink cut is the beginning of a whole lawful output, at 1 to 16 compute nodes.
pub fn a_cut_output_begins_a_whole_one()
    ensures { (held : Held) (nodes : ℕ) (script : List ℕ) (out : Trace) → 1 ≤ nodes → nodes ≤ 16 → Outputs held nodes script Cut out → BeginsOutput held nodes script out.text }
{
    each_query_has_a_least_plan();
}

/// Over files that tell every name, no script has both a finished output and one that ends with a refusal.
pub fn a_script_is_done_or_refused()
    ensures { (held : Held) (nodes : ℕ) (script : List ℕ) (one two : Trace) → TellsAll held → Outputs held nodes script Finished one → ¬ (Outputs held nodes script Refused two) }
{}
