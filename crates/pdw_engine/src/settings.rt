//! What SET changes.

ghost use Rattle.std.specs.Prelude.{◌≡◌, ◌≤◌};
ghost use Rattle.pdw_engine.specs.Settings as spec;
ghost use Rattle.pdw_engine.specs.Settings.{AreAllowed};

use pdw_move::Constants;
use pdw_syntax::CostPart;

/// The budget of exploration where none was set.
pub const USUAL_BUDGET: u32 = 20_000;

/// The budget of exploration, in join expressions, and what moving a byte costs.
#[derive(Clone, Copy, PartialEq, Eq)]
pub struct Settings {
    pub budget: u32,
    pub constants: Constants,
}

impl Settings {
    /// The settings of a session in which nothing was set.
    pub fn usual() -> Settings
        ensures { result ≡ spec.usual_settings }
    {
        Settings {
            budget: USUAL_BUDGET,
            constants: Constants::defaults(),
        }
    }

    /// With another budget.
    pub fn with_budget(self, budget: u32) -> Settings
        ensures { result ≡ spec.with_budget budget self }
    {
        Settings { budget, ..self }
    }

    /// With another amount of one constant.
    pub fn with_constant(self, part: CostPart, amount: u32) -> Settings
        ensures { result ≡ spec.with_constant part amount self }
    {
        Settings {
            constants: constants_with(part, amount, self.constants),
            ..self
        }
    }
}

fn constants_with(part: CostPart, amount: u32, constants: Constants) -> Constants
    ensures { result ≡ spec.constants_with part amount constants }
{
    let mut changed = constants;
    match part {
        CostPart::Reader => changed.reader = amount,
        CostPart::HashReader => changed.hash_reader = amount,
        CostPart::Network => changed.network = amount,
        CostPart::Writer => changed.writer = amount,
        CostPart::Bulk => changed.bulk = amount,
        CostPart::Control => changed.control = amount,
    }
    changed
}
