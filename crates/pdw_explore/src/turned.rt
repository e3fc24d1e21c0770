//! Items in the other direction, so that they can be taken one after the other from the end.

ghost use Rattle.std.specs.Prelude.{◌≡◌, reverse, IfOk};

use pdw_base::NoMemory;
use sqlite_items::Items;
use std::alloc::Global;

/// The items in the other direction.
#[tactic(auto, using(crate::proofs::Loops::turn_step, crate::proofs::Loops::length_pop))]
pub fn turned<T: Drop>(alloc: Global, mut items: Items<T>) -> Result<Items<T>, NoMemory>
    ensures { IfOk result (λ turned. turned ≡ reverse items) }
{
    let mut turned = Items::new(alloc);
    while let Some(item) = items.pop() {
        turned.push(item)?;
    }
    Ok(turned)
}
