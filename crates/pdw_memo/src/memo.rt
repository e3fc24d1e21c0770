//! The memo.

ghost use Rattle.std.specs.Prelude.{◌≡◌};
ghost use Rattle.pdw_memo.specs.Memo as spec;
ghost use Rattle.pdw_memo.specs.Memo.{IsMemo};

use crate::count::join_count;
use pdw_groups::{BlockPart, Group};
use sqlite_items::Items;
use std::marker::Model;

/// The groups of a tree by number, of which the last is the root, and its blocks by number. In each group every expression's
/// children have smaller numbers, and it stands for the group.
#[derive(Drop)]
pub struct Memo {
    groups: Items<Group>,
    blocks: Items<BlockPart>,
}

impl Model for Memo {
    ghost use Rattle.pdw_groups.specs.Memo.{Contents};
    ghost use Rattle.pdw_memo.specs.Memo.{IsMemo as Is};
    ghost use Rattle.pdw_expr.specs.contracts.cond.Cond as of_cond;
    ghost use Rattle.pdw_expr.specs.contracts.scalar.Scalar as of_scalar;
    ghost use Rattle.std.specs.Coded.{codes};

    ghost Value = { Contents };

    ghost coded = { Prim.hlevel (codes, of_cond.the_row.coded, of_scalar.the_row.coded) };

    ghost view = { λ m. record { groups = m.groups; blocks = m.blocks } };

    ghost invariant = { λ m. Is (record { groups = m.groups; blocks = m.blocks }) };
}

impl Memo {
    /// The memo of these groups and blocks, which are those of some tree. It takes no memory.
    pub fn from_parts(groups: Items<Group>, blocks: Items<BlockPart>) -> Memo
        requires { IsMemo (record { groups = groups; blocks = blocks }) }
        ensures { result ≡ record { groups = groups; blocks = blocks } }
    {
        Memo { groups, blocks }
    }

    /// The groups by number. The last is the root.
    pub fn groups(&self) -> &[Group]
        ensures groups { result.now ≡ self.now.groups }
        ensures memo { IsMemo self.now }
    {
        self.groups.as_slice()
    }

    /// The blocks by number.
    pub fn blocks(&self) -> &[BlockPart]
        ensures blocks { result.now ≡ self.now.blocks }
        ensures memo { IsMemo self.now }
    {
        self.blocks.as_slice()
    }

    /// How many join expressions the groups of a block have. It takes no memory.
    pub fn join_count(&self, block: u32) -> u64
        ensures { result ≡ spec.join_count block self.now.groups }
    {
        join_count(self.groups.as_slice(), block)
    }

    /// The groups and the blocks by number. It takes no memory.
    pub fn into_parts(self) -> (Items<Group>, Items<BlockPart>)
        ensures parts { result ≡ (self.groups, self.blocks) }
        ensures memo { IsMemo self }
    {
        let Memo { groups, blocks } = self;
        (groups, blocks)
    }
}
