//! The conjuncts of WHERE: SQL-92, 7.6.

ghost use Rattle.std.specs.Prelude.{◌≡◌, ◌∷◌, IfOk};
ghost use Rattle.pdw_walk.specs.Conjuncts as spec;
ghost use Rattle.pdw_walk.specs.Queries.{condition};
ghost use Rattle.pdw_walk.specs.Walk.{Walks};

use pdw_base::{Kind, NoMemory};
use pdw_catalog::Catalog;
use pdw_expr::Cond;
use pdw_form::JSub;
use pdw_resolve::{Place, Walk, is_nested, is_same_kind, test};
use pdw_syntax::SqlCond;
use pdw_walk::{Column, Conjuncts, Entry, JudgeFault, Role};
use sqlite_items::Items as ListOf;
use std::alloc::{AllocError, Global};
use std::marker::Model;

/// What a conjunct of WHERE stands in.
#[derive(Drop)]
pub struct Around<'a> {
    pub catalog: &'a Catalog,
    /// The columns of the query's own FROM.
    pub own: &'a [Entry],
    /// Those of the enclosing queries, the innermost first.
    pub outers: &'a [ListOf<Entry>],
    /// Whether columns of the innermost enclosing query may stand in the query's WHERE.
    pub correlated: bool,
}

impl<'a> Model for Around<'a> {
    ghost use Rattle.pdw_walk.specs.Conjuncts.{Around as Stands};

    ghost Value = { Stands };

    ghost view = { λ a. record { tables = a.catalog.now; own = a.own.now; outers = a.outers.now; correlated = a.correlated } };
}

/// Whether the query of a role may have columns of the enclosing query in its WHERE.
pub fn is_correlated(role: Role, is_grouped: bool) -> bool
    ensures { result ≡ spec.is_correlated role is_grouped }
{
    match role {
        Role::In => !is_grouped,
        Role::Exists => !is_grouped,
        Role::Statement => false,
        Role::DerivedTable => false,
    }
}

fn entry_copy(alloc: Global, entry: &Entry) -> Result<Entry, NoMemory>
    ensures { IfOk result (λ copy. copy ≡ entry.now) }
{
    Ok(Entry {
        alias: entry.alias.try_copy(alloc)?,
        column: entry.column.try_copy(alloc)?,
        kind: entry.kind,
        slot: entry.slot,
    })
}

fn scope_copy(alloc: Global, scope: &[Entry]) -> Result<ListOf<Entry>, NoMemory>
    ensures { IfOk result (λ copy. copy ≡ scope.now) }
{
    let mut copy = ListOf::new(alloc);
    for entry in scope {
        copy.push(entry_copy(alloc, entry)?)?;
    }
    Ok(copy)
}

fn scopes_after(
    alloc: Global,
    first: ListOf<Entry>,
    rest: &[ListOf<Entry>],
) -> Result<ListOf<ListOf<Entry>>, NoMemory>
    ensures { IfOk result (λ scopes. scopes ≡ first ∷ rest.now) }
{
    let mut scopes = ListOf::new(alloc);
    scopes.push(first)?;
    for scope in rest {
        scopes.push(scope_copy(alloc, scope.as_slice())?)?;
    }
    Ok(scopes)
}

/// The scopes that enclose a subquery.
pub fn enclosing(alloc: Global, around: &Around<'_>) -> Result<ListOf<ListOf<Entry>>, NoMemory>
    ensures { IfOk result (λ scopes. scopes ≡ spec.enclosing around.now) }
{
    let own = scope_copy(alloc, around.own)?;
    scopes_after(alloc, own, around.outers)
}

/// Whether these are one column, of this kind.
pub fn is_one_column(kind: Kind, outputs: &[Column]) -> bool
    ensures { result ≡ spec.is_one_column kind outputs.now }
{
    match outputs {
        [output] => is_same_kind(kind, output.kind),
        _ => false,
    }
}

/// No conjunct.
pub fn no_conjuncts(alloc: Global) -> Conjuncts
    ensures { result ≡ spec.no_conjuncts }
{
    Conjuncts {
        plain: ListOf::new(alloc),
        outer: ListOf::new(alloc),
        subs: ListOf::new(alloc),
    }
}

/// A subquery after the conjuncts before it.
pub fn with_subquery(before: Conjuncts, sub: JSub) -> Result<Conjuncts, AllocError>
    ensures { IfOk result (λ more. more ≡ spec.with_subquery before sub) }
{
    let mut found = before;
    found.subs.push(sub)?;
    Ok(found)
}

// A conjunct with a column of the enclosing query, or without one, after those before it.
fn with_condition(before: Conjuncts, cond: Cond, outer: bool) -> Result<Conjuncts, AllocError>
    ensures { IfOk result (λ more. more ≡ spec.with_condition before cond outer) }
{
    let mut found = before;
    if outer {
        found.outer.push(cond)?;
    } else {
        found.plain.push(cond)?;
    }
    Ok(found)
}

#[tactic(auto, unfolding(pdw_walk::specs::Conjuncts::condition_walk))]
fn condition_at(
    alloc: Global,
    walk: &mut Walk,
    place: &Place<'_>,
    cond: &SqlCond,
    before: Conjuncts,
) -> Result<Conjuncts, JudgeFault>
    ensures { Walks (spec.condition_walk place.now (condition cond.now).test before walk.old) result walk.new }
{
    walk.forget_outer();
    let made = test(alloc, walk, place, cond)?;
    Ok(with_condition(before, made, walk.met_outer())?)
}

/// A conjunct that is no subquery predicate, after those before it.
pub fn plain_conjunct(
    alloc: Global,
    walk: &mut Walk,
    around: &Around<'_>,
    cond: &SqlCond,
    before: Conjuncts,
) -> Result<Conjuncts, JudgeFault>
    ensures { Walks (spec.condition_walk (spec.where_place around.now (condition cond.now).nested) (condition cond.now).test before walk.old) result walk.new }
{
    let place = Place {
        own: around.own,
        outers: around.outers,
        reaches: around.correlated && !is_nested(cond),
        keys: None,
    };
    condition_at(alloc, walk, &place, cond, before)
}
