//! The words for properties and for kinds of nodes.

ghost use Rattle.std.specs.Prelude.{◌≡◌, option_map};
ghost use Rattle.pdw_move.specs.declared.kinds.Prop.TheVariants.{Hash};
ghost use Rattle.pdw_planjson.specs.Words as spec;

use crate::line::Task;
use crate::numerals::column_in;
use pdw_base::ColId;
use pdw_move::{Move, Prop};
use pdw_rules::is_same;

fn hash_of(column: Option<ColId>) -> Option<Prop>
    ensures { result ≡ option_map Hash column }
{
    match column {
        Some(column) => Some(Prop::Hash(column)),
        None => None,
    }
}

fn hashed(text: &str) -> Option<Prop>
    ensures { result ≡ spec.hashed text.now }
{
    match text.strip_prefix("hash:") {
        Some(column) => hash_of(column_in(column)),
        None => None,
    }
}

/// The property of a word.
#[tactic(auto, unfolding(crate::specs::Words::prop_in))]
pub fn prop_in(text: &str) -> Option<Prop>
    ensures { result ≡ spec.prop_in text.now }
{
    match text {
        "spread" => Some(Prop::Spread),
        "replicated" => Some(Prop::Replicated),
        "single" => Some(Prop::Single),
        "control" => Some(Prop::Control),
        _ => hashed(text),
    }
}

fn hash_column(prop: Prop) -> Option<ColId>
    ensures { result ≡ spec.hash_column prop }
{
    match prop {
        Prop::Hash(column) => Some(column),
        _ => None,
    }
}

#[tactic(auto, unfolding(crate::specs::Words::move_named))]
fn move_named(word: &str, prop: Prop) -> Option<Move>
    ensures { result ≡ spec.move_named word.now prop }
{
    match word {
        "shuffle" => hash_column(prop).map(Move::Shuffle),
        "tosingle" => Some(Move::ToSingle),
        "tocontrol" => Some(Move::ToControl),
        "broadcast" => Some(Move::Broadcast),
        "trim" => hash_column(prop).map(Move::Trim),
        "fromcontrol" => Some(Move::FromControl),
        "fromsingle" => Some(Move::FromSingle),
        _ => None,
    }
}

fn moved_to(prop: Prop, mv: Move) -> Option<Task>
    ensures { result ≡ spec.moved_to prop mv }
{
    if is_same(mv.to(), prop) {
        Some(Task::Move(mv))
    } else {
        None
    }
}

fn move_task(word: &str, prop: Prop) -> Option<Task>
    ensures { result ≡ spec.move_task word.now prop }
{
    match move_named(word, prop) {
        Some(mv) => moved_to(prop, mv),
        None => None,
    }
}

fn free_task(prop: Prop) -> Option<Task>
    ensures { result ≡ spec.free_task prop }
{
    match prop {
        Prop::Spread => Some(Task::Free(Prop::Spread)),
        Prop::Single => Some(Task::Free(Prop::Single)),
        _ => None,
    }
}

/// What a node of a kind does that has a property, where the kind may have it.
#[tactic(auto, unfolding(crate::specs::Words::task_in))]
pub fn task_in(word: &str, prop: Prop) -> Option<Task>
    ensures { result ≡ spec.task_in word.now prop }
{
    match word {
        "scan" => Some(Task::Scan(prop)),
        "op" => Some(Task::Op(prop)),
        "free" => free_task(prop),
        _ => move_task(word, prop),
    }
}
