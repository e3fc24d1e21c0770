ghost use Rattle.std.specs.Prelude.{◌≡◌, ◌<◌, ◌≤◌, ◌+◌, false, length, replicate, slice_index_or, slice_set, IfOk};
ghost use Rattle.pdw_machine.specs.Flags.{one_if, up_count, up_place};

use pdw_base::NoMemory;
use std::alloc::Global;
use std::marker::Model;

/// How many flags there are at most in a row: one for each node.
pub(crate) const MOST_FLAGS: usize = 17;

/// Flags, of which it is known how many are up.
#[derive(Drop)]
pub(crate) struct Flags {
    flags: Vec<bool>,
    count: usize,
}

impl Model for Flags {
    ghost use Rattle.std.specs.Prelude.{◌≡◌, ◌≤◌, List, Bool, vec_len};
    ghost use Rattle.pdw_machine.specs.Flags.{up_count as count_of};

    ghost Value = { List Bool };

    ghost view = { λ f. f.flags.items };

    ghost invariant = { λ f. (vec_len f.flags ≤ 17) × (f.count ≡ count_of f.flags.items) };
}

impl Flags {
    /// So many flags, none of which is up.
    #[tactic(auto, using(crate::proofs::FlagLemmas::up_count_none))]
    pub(crate) fn new(alloc: Global, len: usize) -> Result<Flags, NoMemory>
        requires { len ≤ MOST_FLAGS }
        ensures { IfOk result (λ flags. flags ≡ replicate len false) }
    {
        Ok(Flags {
            flags: vec![in alloc; false; len]?,
            count: 0,
        })
    }

    /// How many are up.
    #[tactic(auto, using(crate::proofs::FlagLemmas::up_count_bounded))]
    pub(crate) fn count(&self) -> usize
        ensures count { result ≡ up_count self.now }
        ensures most { result ≤ MOST_FLAGS }
    {
        self.count
    }

    /// The place of the k-th that is up, counted from 0.
    pub(crate) fn nth(&self, k: usize) -> usize
        ensures { result ≡ up_place self.now k }
    {
        let mut left = k;
        for (place, flag) in self.flags.iter().enumerate() {
            if *flag {
                if left == 0 {
                    return place;
                }
                left -= 1;
            }
        }
        self.flags.len()
    }

    /// Whether a flag is up.
    pub(crate) fn is_up(&self, place: usize) -> bool
        ensures { result ≡ slice_index_or self.now place false }
    {
        place < self.flags.len() && self.flags[place]
    }

    /// Sets one flag anew, if there is such a flag.
    pub(crate) fn set(&mut self, place: usize, flag: bool)
        ensures { self.new ≡ slice_set self.old place flag }
    {
        if place < self.flags.len() {
            let before = self.flags[place];
            self.count = recounted(self.count, before, flag);
            self.flags[place] = flag;
        }
    }
}

// How many flags are up once one of them is set anew.
fn recounted(count: usize, before: bool, after: bool) -> usize
    requires most { count ≤ MOST_FLAGS }
    requires least { one_if before ≤ count }
    ensures { result + one_if before ≡ count + one_if after }
{
    match (before, after) {
        (false, true) => count + 1,
        (true, false) => count - 1,
        _ => count,
    }
}
