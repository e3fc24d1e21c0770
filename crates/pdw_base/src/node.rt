ghost use Rattle.std.specs.Prelude.{◌≡◌, ◌<◌, ◌≤◌, SomeIff};
ghost use Rattle.pdw_base.specs.Hash.{hash_bytes, node_for};

use crate::limits::MOST_NODES;
use crate::{Str, Value};
use std::marker::Model;

/// How many compute nodes an appliance has: 1 to 16.
#[derive(Clone, Copy, Debug, PartialEq, Eq)]
pub struct NodeCount {
    count: u32,
}

impl Model for NodeCount {
    ghost use Rattle.std.specs.Prelude.{ℕ, ◌≤◌};

    ghost Value = { ℕ };

    ghost view = { λ n. n.count };

    ghost invariant = { λ n. (1 ≤ n.count) × (n.count ≤ 16) };

    ghost inverse = { λ n. record { count = n } };
}

impl NodeCount {
    /// The count, or None where it is not 1 to 16.
    pub fn new(n: u32) -> Option<NodeCount>
        ensures { SomeIff result ((1 ≤ n) × (n ≤ 16)) n }
    {
        if n >= 1 && n <= MOST_NODES {
            Some(NodeCount { count: n })
        } else {
            None
        }
    }

    pub fn get(self) -> u32
        ensures value { result ≡ self }
        ensures least { 1 ≤ self }
        ensures most { self ≤ 16 }
    {
        self.count
    }
}

/// A node of the appliance. Compute nodes are numbered from 0.
#[derive(Clone, Copy, Debug, PartialEq, Eq)]
pub enum Node {
    Compute(u32),
    Control,
}

// The fold of a text's bytes.
fn hash_of(text: &Str) -> u64
    ensures { result ≡ hash_bytes text.now }
{
    let mut hash: u64 = 7;
    for byte in text.bytes() {
        hash = hash.wrapping_mul(31).wrapping_add(u64::from(*byte));
    }
    hash
}

/// The compute node that the hash of a value gives among `n`.
pub fn node_of(v: &Value, n: NodeCount) -> u32
    ensures node { result ≡ node_for n v.now }
    ensures there { result < n }
{
    let count = n.get();
    match v {
        Value::Null => 0,
        Value::Int(number) => number.rem_euclid(i64::from(count)) as u32,
        Value::Text(text) => (hash_of(text) % u64::from(count)) as u32,
        Value::Wide(number) => number.rem_euclid(i128::from(count)) as u32,
    }
}
