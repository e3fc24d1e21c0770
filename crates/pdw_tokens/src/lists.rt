//! Lists that are read part by part.

ghost use Rattle.std.specs.Prelude.{◌≡◌, ◌∷◌, IfOk};
ghost use Rattle.pdw_tokens.specs.Many.{ReadsMany};

use crate::tokens::Tokens;
use pdw_reading::Stop;
use sqlite_items::Items as ListOf;
use std::alloc::{AllocError, Global};

/// The list of a first item and further ones.
pub fn first_and_rest<T: Drop>(
    alloc: Global,
    first: T,
    rest: ListOf<T>,
) -> Result<ListOf<T>, AllocError>
    ensures { IfOk result (λ all. all ≡ first ∷ rest) }
{
    let mut all = ListOf::new(alloc);
    all.push(first)?;
    all.append(rest)?;
    Ok(all)
}

/// What `next` reads again and again, until it reads nothing more.
#[tactic(auto, using(crate::proofs::Turns::turns), unfolding(pdw_reading::specs::Reading::many))]
pub fn many<T: Drop, N: Fn(&mut Tokens<'_>) -> Result<Option<T>, Stop>>(
    alloc: Global,
    tokens: &mut Tokens<'_>,
    next: N,
) -> Result<ListOf<T>, Stop>
    requires { N.IsAlwaysCallable next }
    ensures { ReadsMany (N.post next) tokens.old result tokens.new }
{
    let mut found = ListOf::new(alloc);
    for _turn in 0..tokens.left() {
        match next(tokens)? {
            Some(item) => found.push(item)?,
            None => return Ok(found),
        }
    }
    Ok(found)
}
