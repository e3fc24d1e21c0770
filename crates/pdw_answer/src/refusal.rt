use pdw_load::LoadError;
use pdw_walk::JudgeFault;

/// Why a statement is refused.
#[derive(Debug, Drop)]
pub enum Refusal {
    /// The statement's words are at fault, by the tables that there are.
    Judge(JudgeFault),
    /// A record of the file is at fault.
    Load(LoadError),
    /// The table would have more rows than this.
    Rows { most: u64 },
    /// Statements of this form can't be executed yet.
    NotBuilt,
}
