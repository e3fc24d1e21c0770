ghost use Rattle.std.specs.Prelude.{◌≡◌, None};

use crate::Picker;
use rand_core::SeedableRng;
use rand_core::utils::NextWord;
use rand_pcg::Pcg32;

// How a schedule goes on.
#[derive(Drop)]
enum Answers {
    Counted(u32),
    Drawn(Pcg32),
}

/// The schedule of a number: 0 answers 0, 1, 2 and so on, another the words that a generator draws from it.
#[derive(Drop)]
pub struct Schedule {
    answers: Answers,
}

/// A picker that always gives the same answer.
#[derive(Drop)]
pub struct Fixed(pub u32);

impl Schedule {
    /// The schedule of 0.
    pub fn new() -> Schedule {
        Schedule {
            answers: Answers::Counted(0),
        }
    }
}

impl Picker for Schedule {
    ghost told = { λ _. None };

    fn start(&mut self, k: u64) {
        self.answers = if k == 0 {
            Answers::Counted(0)
        } else {
            Answers::Drawn(Pcg32::seed_from_u64(k))
        };
    }

    fn pick(&mut self, _count: u32) -> u32 {
        match &mut self.answers {
            Answers::Counted(next) => {
                let answer = *next;
                *next = answer.wrapping_add(1);
                answer
            }
            Answers::Drawn(words) => words.next_word(),
        }
    }
}

impl Picker for Fixed {
    ghost told = { λ _. None };

    fn start(&mut self, _k: u64) {}

    fn pick(&mut self, _count: u32) -> u32 {
        self.0
    }
}
