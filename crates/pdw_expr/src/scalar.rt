ghost use Rattle.std.specs.Prelude.{◌≡◌, IfOk};

use pdw_base::{ColId, NoMemory, Value};
use sqlite_items::{Boxed, Items};
use std::alloc::Global;

/// An operator of numbers. SQL-92, 6.12 has the first four; `%` is this language's own.
#[derive(Clone, Copy, Debug, PartialEq, Eq)]
pub enum Arith {
    Add,
    Sub,
    Mul,
    Div,
    /// The remainder, which has the sign of the dividend.
    Rem,
}

/// An expression of a row's columns.
#[derive(Drop)]
pub enum Scalar {
    Col(ColId),
    Lit(Value),
    Neg(Boxed<Scalar>),
    /// A first operand, and further ones with their operators, computed from left to right.
    Chain(Boxed<Scalar>, Items<(Arith, Scalar)>),
}

impl Scalar {
    /// An equal expression.
    pub fn try_copy(&self, alloc: Global) -> Result<Scalar, NoMemory>
        ensures { IfOk result (λ copy. copy ≡ self.now) }
    {
        match self {
            Scalar::Col(c) => Ok(Scalar::Col(*c)),
            Scalar::Lit(value) => Ok(Scalar::Lit(value.try_copy(alloc)?)),
            Scalar::Neg(operand) => {
                let copy = operand.get().try_copy(alloc)?;
                Ok(Scalar::Neg(Boxed::new(alloc, copy)?))
            }
            Scalar::Chain(first, rest) => {
                let mut links = Vec::with_capacity(alloc, rest.len())?;
                for link in rest.as_slice() {
                    links.push((link.0, link.1.try_copy(alloc)?))?;
                }
                let start = first.get().try_copy(alloc)?;
                Ok(Scalar::Chain(Boxed::new(alloc, start)?, Items::from_vec(links)))
            }
        }
    }
}
