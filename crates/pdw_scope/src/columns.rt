//! The columns of tables by their names.

ghost use Rattle.std.specs.Prelude.{◌≡◌, IfErr, IfOk, position};
ghost use Rattle.pdw_walk.specs.Statements as spec;
ghost use Rattle.pdw_walk.specs.Walk.{Walks, beginning};
ghost use Rattle.pdw_walk.specs.declared.fault.JudgeFault.TheVariants.{Memory};

use pdw_base::Str;
use pdw_catalog::Column;
use pdw_walk::JudgeFault;
use std::alloc::Global;

/// A place in 32 bits. A list with more places is taken to be more than memory holds.
pub fn kept_place(place: usize) -> Result<u32, JudgeFault>
    ensures same { IfOk result (λ kept. kept ≡ place) }
    ensures fault { IfErr result (λ fault. fault ≡ Memory) }
{
    match u32::try_from(place) {
        Ok(kept) => Ok(kept),
        Err(_) => Err(JudgeFault::Memory),
    }
}

// Where the column of this name stands.
fn position_of(columns: &[Column], name: &Str) -> Option<usize>
    ensures { result ≡ position (spec.is_named name.now) columns.now }
{
    columns.iter().position(|column| column.name == *name)
}

/// The place of the column of this name, which has to be there.
#[tactic(auto, unfolding(pdw_walk::specs::Statements::place_of_column))]
pub fn place_of_column(alloc: Global, columns: &[Column], name: &Str) -> Result<u32, JudgeFault>
    ensures { Walks (spec.place_of_column columns.now name.now beginning) result beginning }
{
    match position_of(columns, name) {
        Some(place) => kept_place(place),
        None => Err(JudgeFault::UnknownColumn(name.try_copy(alloc)?)),
    }
}
