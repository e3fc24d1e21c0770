//! Sets of a block's leaves as numbers: bit i stands for leaf i.

ghost use Rattle.std.specs.Prelude.{◌≡◌, ◌<◌, ◌^◌};
ghost use Rattle.pdw_groups.specs.Level as spec;

use crate::Level;

/// Whether a set has one leaf.
pub fn is_one(mask: u32) -> bool
    ensures { result ≡ spec.is_one mask }
{
    mask.count_ones() == 1
}

/// Whether a set has two leaves or more.
pub fn is_several(mask: u32) -> bool
    ensures { result ≡ spec.is_several mask }
{
    mask.count_ones() >= 2
}

/// Whether a level has a set of leaves as a group of its own.
pub fn has_set(level: Level, mask: u32) -> bool
    requires { mask < 2 ^ 31 }
    ensures { result ≡ spec.has_set level mask }
{
    match level {
        Level::Full | Level::Linear => is_several(mask),
        Level::Written => is_several(mask) && is_one(mask + 1),
    }
}

// Whether a level joins two sets that have no leaf in common.
fn has_join(level: Level, left: u32, right: u32) -> bool
    requires { left < 2 ^ 31 }
    ensures { result ≡ spec.has_join level left right }
{
    match level {
        Level::Full => true,
        Level::Linear => is_one(left) || is_one(right),
        Level::Written => is_one(right) && left + 1 == right,
    }
}

/// Whether a level makes a set of this left part and of what is left.
pub fn is_left(level: Level, whole: u32, left: u32) -> bool
    requires { left < 2 ^ 31 }
    ensures { result ≡ spec.is_left level whole left }
{
    left & whole == left && left != 0 && has_join(level, left, left ^ whole)
}

/// Whether a leaf is in a set.
pub fn has_leaf(mask: u32, leaf: usize) -> bool
    requires { leaf < 32 }
    ensures { result ≡ spec.set_of mask leaf }
{
    (mask >> leaf) & 1 == 1
}

/// The set of one leaf, which is also how many sets there are of the leaves before it.
pub fn only(leaf: usize) -> u32
    requires { leaf < 31 }
    ensures { result ≡ 2 ^ leaf }
{
    1 << leaf
}
