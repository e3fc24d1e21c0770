//! Where an expression or a condition stands.

use pdw_walk::{Entry, Slot};
use sqlite_items::Items as ListOf;
use std::marker::Model;

/// The columns that a place sees, and what may stand there.
#[derive(Drop)]
pub struct Place<'a> {
    /// The columns of the query's own FROM.
    pub own: &'a [Entry],
    /// Those of the enclosing queries, the innermost first.
    pub outers: &'a [ListOf<Entry>],
    /// Whether a column of the innermost enclosing query may stand here.
    pub reaches: bool,
    /// In the items and HAVING of a grouped query, its grouping columns. Elsewhere no aggregate may stand.
    pub keys: Option<&'a [Slot]>,
}

impl<'a> Model for Place<'a> {
    ghost use Rattle.std.specs.Option.{option_copied};
    ghost use Rattle.pdw_walk.specs.Lookup.{Place as Stands};

    ghost Value = { Stands };

    ghost view = { λ p. record { own = p.own.now; outers = p.outers.now; reaches = p.reaches; keys = option_copied p.keys } };
}
