//! The law of plan files, the contract of a function.

ghost use Rattle.std.specs.Prelude.{◌≡◌, ◌⊎◌, ℕ, List, Result, Ok, Err, IsUtf8, Some};
ghost use Rattle.serde_json.specs.Read.{read};
ghost use Rattle.pdw_planjson.specs.File.{Answers, described};
ghost use Rattle.pdw_planjson.specs.Written.{file_data};
ghost use Rattle.pdw_planjson.specs.declared.file.JsonFault.{JsonFault as Fault};
ghost use Rattle.pdw_planjson.specs.declared.file.JsonFault.TheVariants.{Memory};
ghost use Rattle.pdw_planjson.specs.declared.file.PlanFile.{PlanFile as File};

/// What `from_text` answers to the text of a plan file that its data describes, as `to_text` gives it for each file within the
/// limits, is the same plan file, or want of memory.
pub fn written_files_read_back()
    ensures { (file : File) (bytes : List ℕ) (answer : Result File Fault) → described (file_data file) ≡ Ok file → IsUtf8 bytes → read bytes ≡ Some (file_data file) → Answers bytes answer → (answer ≡ Ok file) ⊎ (answer ≡ Err Memory) }
{}
