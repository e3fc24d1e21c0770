//! The properties of a group by their places, without a list of them.

ghost use Rattle.std.specs.Prelude.{◌≡◌, ◌<◌, [], ◌∷◌, Some, length};
ghost use Rattle.std.specs.List.{slice_get};
ghost use Rattle.pdw_move.specs.declared.kinds.Prop.TheVariants as whole_props;
ghost use Rattle.pdw_rules.specs.Rules.{properties_of};

use pdw_base::ColId;
use pdw_move::Prop;
use sqlite_items::at;

/// How many properties a group with these interesting columns has.
pub(crate) fn property_count(interesting: &[ColId]) -> usize
    ensures { result ≡ length (properties_of interesting.now) }
{
    interesting.len() + 4
}

/// The property at a place among those of a group with these interesting columns.
pub(crate) fn property_at(interesting: &[ColId], place: usize) -> Prop
    requires { place < length (properties_of interesting.now) }
    ensures { slice_get (properties_of interesting.now) place ≡ Some result }
{
    if place == 0 {
        return Prop::Spread;
    }
    match at(interesting, place - 1) {
        Some(column) => Prop::Hash(*column),
        None => whole_at(place - 1 - interesting.len()),
    }
}

// The last three properties of each group.
fn whole_at(place: usize) -> Prop
    requires { place < 3 }
    ensures { slice_get (whole_props.Replicated ∷ whole_props.Single ∷ whole_props.Control ∷ []) place ≡ Some result }
{
    match place {
        0 => Prop::Replicated,
        1 => Prop::Single,
        _ => Prop::Control,
    }
}
