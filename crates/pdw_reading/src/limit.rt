//! The limit of the parser.

ghost use Rattle.std.specs.Prelude.{◌≡◌};

/// The greatest number of parentheses that may be open at a place.
pub const MOST_OPEN: usize = 32;

/// The limit of open parentheses.
pub fn the_limit_of_parentheses_is_this()
    ensures { MOST_OPEN ≡ 32 }
{}
