//! Names of columns.

ghost use Rattle.pdw_reading.specs.ReadExprs as spec;
ghost use Rattle.pdw_reading.specs.Reading.{Reads};

use crate::tokens::Tokens;
use pdw_base::Str;
use pdw_lex::Sign;
use pdw_reading::Stop;
use pdw_syntax::ColRef;
use std::alloc::Global;

/// A column that begins with this name.
#[tactic(auto, unfolding(pdw_reading::specs::ReadExprs::column_from))]
pub fn column_from(alloc: Global, tokens: &mut Tokens<'_>, first: Str) -> Result<ColRef, Stop>
    ensures { Reads (spec.column_from first tokens.old) result tokens.new }
{
    if tokens.eat_sign(Sign::Dot) {
        let column = tokens.take_name(alloc)?;
        return Ok(ColRef {
            alias: Some(first),
            column,
        });
    }
    Ok(ColRef {
        alias: None,
        column: first,
    })
}

/// `name` or `name.name`
#[tactic(auto, unfolding(pdw_reading::specs::ReadExprs::column_reference))]
pub fn column_reference(alloc: Global, tokens: &mut Tokens<'_>) -> Result<ColRef, Stop>
    ensures { Reads (spec.column_reference tokens.old) result tokens.new }
{
    let first = tokens.take_name(alloc)?;
    column_from(alloc, tokens, first)
}
