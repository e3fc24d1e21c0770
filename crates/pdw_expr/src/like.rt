ghost use Rattle.std.specs.Prelude.{◌≡◌, ◌∷◌, [], MatchOption};
ghost use Rattle.std.specs.Str.{IsUtf8, chars};
ghost use Rattle.pdw_base.specs.Value.{owned};
ghost use Rattle.pdw_expr.specs.Like as spec;
ghost use Rattle.pdw_expr.specs.Like.{is_empty, matches, some_suffix, stands_for};
ghost use Rattle.pdw_expr.specs.Run.{IsRun};

use crate::logic::truth_from;
use pdw_base::{Truth, ValueRef};

/// How far a pattern matches a text before its first `%`.
enum Run<'p, 't> {
    /// The answer, where no `%` was reached.
    Ends(bool),
    /// The pattern after the `%`, and the text that is left.
    Percent(&'p str, &'t str),
}

// The first character, and the text after it.
fn split_first(text: &str) -> Option<(char, &str)>
    ensures { MatchOption result (chars text.now ≡ []) (λ split. (chars text.now ≡ split.0 ∷ chars split.1.now) × IsUtf8 split.1.now) }
{
    let mut left = text.chars();
    let first = left.next()?;
    Some((first, left.as_str()))
}

fn is_at_end(text: &str) -> bool
    ensures { result ≡ is_empty (chars text.now) }
{
    match split_first(text) {
        Some(_) => false,
        None => true,
    }
}

// A character of a pattern, other than `%`, and one of a text.
fn can_stand_for(wanted: char, first: char) -> bool
    ensures { result ≡ stands_for wanted first }
{
    wanted == '_' || wanted == first
}

fn first_run<'p, 't>(pattern: &'p str, text: &'t str) -> Run<'p, 't>
    ensures { IsRun (chars pattern.entry.now) (chars text.entry.now) result }
{
    let mut pattern = pattern;
    let mut text = text;
    while let Some((wanted, later)) = split_first(pattern) {
        if wanted == '%' {
            return Run::Percent(later, text);
        }
        let Some((first, rest)) = split_first(text) else {
            return Run::Ends(false);
        };
        if !can_stand_for(wanted, first) {
            return Run::Ends(false);
        }
        pattern = later;
        text = rest;
    }
    Run::Ends(is_at_end(text))
}

// The first place at which the part before the next `%` matches is as good as any later one, so nothing is tried twice.
fn matches_some_suffix(pattern: &str, text: &str) -> bool
    ensures { result ≡ some_suffix (matches (chars pattern.entry.now)) (chars text.entry.now) }
{
    let mut pattern = pattern;
    let mut text = text;
    loop {
        match first_run(pattern, text) {
            Run::Ends(true) => return true,
            Run::Ends(false) => match split_first(text) {
                Some((_, rest)) => text = rest,
                None => return false,
            },
            Run::Percent(later, left) => {
                pattern = later;
                text = left;
            }
        }
    }
}

fn is_match(pattern: &str, text: &str) -> bool
    ensures { result ≡ matches (chars pattern.now) (chars text.now) }
{
    match first_run(pattern, text) {
        Run::Ends(answer) => answer,
        Run::Percent(later, left) => matches_some_suffix(later, left),
    }
}

/// `text LIKE pattern`: SQL-92, 8.5.
pub fn is_like(text: ValueRef<'_>, pattern: ValueRef<'_>) -> Truth
    ensures { result ≡ spec.like (owned text.entry) (owned pattern.entry) }
{
    match (text, pattern) {
        (ValueRef::Text(text), ValueRef::Text(pattern)) => {
            truth_from(is_match(pattern.text(), text.text()))
        }
        _ => Truth::Unknown,
    }
}
