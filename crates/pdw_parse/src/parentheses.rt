//! Parentheses, and what they hold.

ghost use Rattle.std.specs.Prelude.{◌≡◌, ◌<◌, IfOk};
ghost use Rattle.pdw_reading.specs.Levels.{content_by, nested, opening};
ghost use Rattle.pdw_reading.specs.Reading.{Reads, closed};

use pdw_lex::Sign;
use pdw_queries::Queries;
use pdw_reading::{Content, Stop, Wanted};
use pdw_terms::Grammar;
use pdw_tokens::Tokens;
use std::alloc::Global;

// The parenthesis that opens, where `depth` more may be open, and how many more may be open inside.
#[tactic(auto, using(crate::proofs::NestedReads::openings))]
fn open(tokens: &mut Tokens<'_>, depth: usize) -> Result<usize, Stop>
    ensures reads { Reads (opening depth tokens.old) result tokens.new }
    ensures fewer { IfOk result (λ inside. inside < depth) }
{
    if !tokens.sees_sign(Sign::ParenOpen) {
        return Err(Stop::Syntax);
    }
    if depth == 0 {
        return Err(Stop::TooDeep);
    }
    tokens.advance();
    Ok(depth - 1)
}

/// A pair of parentheses with what is wanted in it, where `depth` more may be open.
pub fn enclosed(
    alloc: Global,
    tokens: &mut Tokens<'_>,
    depth: usize,
    wanted: Wanted,
) -> Result<Content, Stop>
    ensures { Reads (content_by (nested depth) wanted tokens.old) result tokens.new }
{
    let rules = Queries {
        grammar: Grammar {
            alloc,
            depth: open(tokens, depth)?,
            nested: enclosed,
        },
    };
    let content = rules.inner(tokens, wanted)?;
    tokens.take_sign(Sign::ParenClose)?;
    Ok(content)
}
