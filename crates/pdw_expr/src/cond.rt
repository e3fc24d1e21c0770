ghost use Rattle.std.specs.Prelude.{◌≡◌, IfOk};

use crate::Scalar;
use pdw_base::{NoMemory, Truth};
use sqlite_items::{Boxed, Items};
use std::alloc::Global;

/// A comparison: SQL-92, 8.2.
#[derive(Clone, Copy, Debug, PartialEq, Eq)]
pub enum Cmp {
    Eq,
    Ne,
    Lt,
    Le,
    Gt,
    Ge,
}

/// A condition on a row's columns.
#[derive(Drop)]
pub enum Cond {
    Compare(Cmp, Scalar, Scalar),
    /// The text, and the pattern that it is to match: SQL-92, 8.5.
    Like(Scalar, Scalar),
    IsNull(Scalar),
    /// The condition has this truth: SQL-92, 8.12.
    Test(Boxed<Cond>, Truth),
    Not(Boxed<Cond>),
    /// AND of all, True where there are none.
    All(Items<Cond>),
    /// OR of all, False where there are none.
    Any(Items<Cond>),
}

impl Cond {
    /// An equal condition.
    #[cycle(copy)]
    pub fn try_copy(&self, alloc: Global) -> Result<Cond, NoMemory>
        ensures { IfOk result (λ copy. copy ≡ self.now) }
    {
        match self {
            Cond::Compare(op, a, b) => {
                Ok(Cond::Compare(*op, a.try_copy(alloc)?, b.try_copy(alloc)?))
            }
            Cond::Like(text, pattern) => {
                Ok(Cond::Like(text.try_copy(alloc)?, pattern.try_copy(alloc)?))
            }
            Cond::IsNull(a) => Ok(Cond::IsNull(a.try_copy(alloc)?)),
            Cond::Test(part, truth) => {
                let copy = part.get().try_copy(alloc)?;
                Ok(Cond::Test(Boxed::new(alloc, copy)?, *truth))
            }
            Cond::Not(part) => {
                let copy = part.get().try_copy(alloc)?;
                Ok(Cond::Not(Boxed::new(alloc, copy)?))
            }
            Cond::All(parts) => Ok(Cond::All(try_copy_all(parts.as_slice(), alloc)?)),
            Cond::Any(parts) => Ok(Cond::Any(try_copy_all(parts.as_slice(), alloc)?)),
        }
    }
}

#[cycle(copy)]
fn try_copy_all(parts: &[Cond], alloc: Global) -> Result<Items<Cond>, NoMemory>
    ensures { IfOk result (λ copies. copies ≡ parts.now) }
{
    let mut copies = Vec::with_capacity(alloc, parts.len())?;
    for part in parts {
        copies.push(part.try_copy(alloc)?)?;
    }
    Ok(Items::from_vec(copies))
}
