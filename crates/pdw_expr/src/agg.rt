ghost use Rattle.std.specs.Prelude.{◌≡◌, IfOk};

use crate::Scalar;
use pdw_base::{ColId, NoMemory};
use std::alloc::Global;

/// What an aggregate computes over the rows of a group: SQL-92, 6.5.
#[derive(Clone, Copy, Debug, PartialEq, Eq)]
pub enum AggKind {
    /// The number of rows.
    CountStar,
    /// The number of values of the argument that are not NULL.
    Count,
    Sum,
    Min,
    Max,
}

/// An aggregate and the column that it makes. CountStar alone has no argument.
#[derive(Drop)]
pub struct Agg {
    pub kind: AggKind,
    pub arg: Option<Scalar>,
    pub out: ColId,
}

impl Agg {
    /// An equal aggregate.
    pub fn try_copy(&self, alloc: Global) -> Result<Agg, NoMemory>
        ensures { IfOk result (λ copy. copy ≡ self.now) }
    {
        let arg = match &self.arg {
            Some(arg) => Some(arg.try_copy(alloc)?),
            None => None,
        };
        Ok(Agg {
            kind: self.kind,
            arg,
            out: self.out,
        })
    }
}

/// How the rows of two sides are joined: SQL-92, 7.5; Semi keeps the left rows that have a partner, Anti those that have none.
#[derive(Clone, Copy, Debug, PartialEq, Eq)]
pub enum JoinKind {
    Inner,
    Left,
    Full,
    Semi,
    Anti,
}
