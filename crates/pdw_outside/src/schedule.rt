ghost use Rattle.std.specs.Prelude.{◌≡◌};
ghost use Rattle.pdw_outside.specs.Calls.{Calls, next_fails, after_call};

use std::marker::Model;

/// Which calls fail: they are numbered from 1.
#[derive(Drop)]
pub(crate) struct Schedule {
    made: u64,
    fails: Vec<u64>,
}

impl Model for Schedule {
    ghost use Rattle.pdw_outside.specs.Calls.{Calls};

    ghost Value = { Calls };

    ghost view = { λ s. record { made = s.made; fails = s.fails.items } };
}

impl Schedule {
    pub(crate) fn new(fails: Vec<u64>) -> Schedule
        ensures { result ≡ record { made = 0; fails = fails.items } }
    {
        Schedule { made: 0, fails }
    }

    /// Counts one more call, and says whether it fails.
    pub(crate) fn next_fails(&mut self) -> bool
        ensures answer { result ≡ next_fails self.old }
        ensures counted { self.new ≡ after_call self.old }
    {
        self.made = self.made.saturating_add(1);
        self.fails.contains(&self.made)
    }
}
