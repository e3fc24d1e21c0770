//! Queries, and what leads back to them: SQL-92, 7.9.

ghost use Rattle.std.specs.Prelude.{None, Some, map};
ghost use Rattle.std.specs.List.{flat_map};
ghost use Rattle.std.specs.Option.{option_map};
ghost use Rattle.pdw_walk.specs.Exprs.{expr as expr_walk};
ghost use Rattle.pdw_walk.specs.Froms as from;
ghost use Rattle.pdw_walk.specs.Conjuncts as conjunct;
ghost use Rattle.pdw_walk.specs.Queries as spec;
ghost use Rattle.pdw_walk.specs.Queries.{condition, text};
ghost use Rattle.pdw_walk.specs.Walk.{Gives, Walks, over};

use pdw_base::Str;
use pdw_catalog::Catalog;
use pdw_clauses::{
    Around, Frame, Sources, after_where, derived, enclosing, is_correlated, is_one_column, joined,
    named, no_conjuncts, no_sources, plain_conjunct, with_element, with_subquery,
};
use pdw_form::JSub;
use pdw_resolve::{Place, Walk, expr, is_grouped};
use pdw_syntax::{JoinPart, Primary, Query, SqlCond, SqlExpr, TableRef};
use pdw_walk::{Conjuncts, Element, Entry, JudgeFault, Role, Typed, Walked};
use sqlite_items::Items as ListOf;
use std::alloc::Global;
use std::mem::drop;

// The left side of IN, which sees the columns of the query's own FROM.
fn left_side(
    alloc: Global,
    walk: &mut Walk,
    around: &Around<'_>,
    value: &SqlExpr,
) -> Result<Typed, JudgeFault>
    ensures { Walks (expr_walk value.now (conjunct.place_in around.now.outers around.now.own) walk.old) result walk.new }
{
    let place = Place {
        own: around.own,
        outers: around.outers,
        reaches: false,
        keys: None,
    };
    expr(alloc, walk, &place, value)
}

// A subquery, within the query that it stands in.
#[cycle(walk)]
fn subquery(
    alloc: Global,
    walk: &mut Walk,
    around: &Around<'_>,
    inner: &Query,
    role: Role,
) -> Result<Walked, JudgeFault>
    ensures { Walks (spec.query around.now.tables inner.now role (conjunct.enclosing around.now) walk.old) result walk.new }
{
    let scopes = enclosing(alloc, around)?;
    query(alloc, around.catalog, walk, inner, role, scopes.as_slice())
}

// The two sides of IN, when they were walked.
#[tactic(auto, unfolding(pdw_walk::specs::Conjuncts::in_subquery))]
fn in_subquery(negated: bool, left: Typed, walked: Walked) -> Result<JSub, JudgeFault>
    ensures { Gives (conjunct.in_subquery negated left walked) result }
{
    if is_one_column(left.kind, walked.outputs.as_slice()) {
        return Ok(JSub {
            negated,
            left: Some(left.scalar),
            query: walked.query,
        });
    }
    drop(left);
    drop(walked);
    Err(JudgeFault::TypeMismatch)
}

#[cycle(walk)]
#[tactic(auto, unfolding(pdw_walk::specs::Conjuncts::in_walk))]
fn in_query(
    alloc: Global,
    walk: &mut Walk,
    around: &Around<'_>,
    inner: &Query,
    value: &SqlExpr,
    negated: bool,
) -> Result<JSub, JudgeFault>
    ensures { Walks (conjunct.in_walk around.now (expr_walk value.now) negated (spec.query_walk inner.now) walk.old) result walk.new }
{
    let left = left_side(alloc, walk, around, value)?;
    match subquery(alloc, walk, around, inner, Role::In) {
        Ok(walked) => in_subquery(negated, left, walked),
        Err(fault) => {
            drop(left);
            Err(fault)
        }
    }
}

#[cycle(walk)]
#[tactic(auto, unfolding(pdw_walk::specs::Conjuncts::exists_walk))]
fn exists(
    alloc: Global,
    walk: &mut Walk,
    around: &Around<'_>,
    inner: &Query,
    negated: bool,
) -> Result<JSub, JudgeFault>
    ensures { Walks (conjunct.exists_walk around.now negated (spec.query_walk inner.now) walk.old) result walk.new }
{
    let walked = subquery(alloc, walk, around, inner, Role::Exists)?;
    Ok(JSub {
        negated,
        left: None,
        query: walked.query,
    })
}

#[cycle(walk)]
fn in_conjunct(
    alloc: Global,
    walk: &mut Walk,
    around: &Around<'_>,
    inner: &Query,
    value: &SqlExpr,
    negated: bool,
    before: Conjuncts,
) -> Result<Conjuncts, JudgeFault>
    ensures { Walks (conjunct.subquery_conjunct around.now before (Some (expr_walk value.now)) negated (spec.query_walk inner.now) walk.old) result walk.new }
{
    match in_query(alloc, walk, around, inner, value, negated) {
        Ok(sub) => Ok(with_subquery(before, sub)?),
        Err(fault) => {
            drop(before);
            Err(fault)
        }
    }
}

#[cycle(walk)]
fn exists_conjunct(
    alloc: Global,
    walk: &mut Walk,
    around: &Around<'_>,
    inner: &Query,
    negated: bool,
    before: Conjuncts,
) -> Result<Conjuncts, JudgeFault>
    ensures { Walks (conjunct.subquery_conjunct around.now before None negated (spec.query_walk inner.now) walk.old) result walk.new }
{
    match exists(alloc, walk, around, inner, negated) {
        Ok(sub) => Ok(with_subquery(before, sub)?),
        Err(fault) => {
            drop(before);
            Err(fault)
        }
    }
}

// A conjunct that is NOT over this part.
#[cycle(walk)]
fn negation(
    alloc: Global,
    walk: &mut Walk,
    around: &Around<'_>,
    part: &SqlCond,
    whole: &SqlCond,
    before: Conjuncts,
) -> Result<Conjuncts, JudgeFault>
    ensures { Walks (conjunct.conjunct_by around.now before (condition whole.now).nested (condition whole.now).test (condition part.now).negation walk.old) result walk.new }
{
    match part {
        SqlCond::Paren(inner) => negation(alloc, walk, around, inner.get(), whole, before),
        SqlCond::InQuery {
            negated,
            value,
            query,
        } => {
            if *negated {
                return plain_conjunct(alloc, walk, around, whole, before);
            }
            in_conjunct(alloc, walk, around, query.get(), value, true, before)
        }
        SqlCond::Exists(query) => exists_conjunct(alloc, walk, around, query.get(), true, before),
        SqlCond::Not(_)
        | SqlCond::All(_)
        | SqlCond::Compare(..)
        | SqlCond::Like { .. }
        | SqlCond::IsNull { .. }
        | SqlCond::Between { .. }
        | SqlCond::InList { .. }
        | SqlCond::Test { .. }
        | SqlCond::Any(_) => plain_conjunct(alloc, walk, around, whole, before),
    }
}

#[cycle(walk)]
#[tactic(auto, using(pdw_resolve::proofs::Turns::turns))]
fn conjuncts_of_parts(
    alloc: Global,
    walk: &mut Walk,
    around: &Around<'_>,
    parts: &[SqlCond],
    before: Conjuncts,
) -> Result<Conjuncts, JudgeFault>
    ensures { Walks (conjunct.conjuncts_walk around.now before (flat_map (λ part. part.conjuncts) (map condition parts.now)) walk.old) result walk.new }
{
    let mut found = before;
    for part in parts {
        found = conjuncts(alloc, walk, around, part, found)?;
    }
    Ok(found)
}

// The conjuncts of a condition after those before them.
#[cycle(walk)]
fn conjuncts(
    alloc: Global,
    walk: &mut Walk,
    around: &Around<'_>,
    cond: &SqlCond,
    before: Conjuncts,
) -> Result<Conjuncts, JudgeFault>
    ensures { Walks (conjunct.conjuncts_walk around.now before (condition cond.now).conjuncts walk.old) result walk.new }
{
    match cond {
        SqlCond::All(parts) => conjuncts_of_parts(alloc, walk, around, parts.as_slice(), before),
        SqlCond::Paren(part) => conjuncts(alloc, walk, around, part.get(), before),
        SqlCond::Not(part) => negation(alloc, walk, around, part.get(), cond, before),
        SqlCond::InQuery {
            negated,
            value,
            query,
        } => in_conjunct(alloc, walk, around, query.get(), value, *negated, before),
        SqlCond::Exists(query) => exists_conjunct(alloc, walk, around, query.get(), false, before),
        SqlCond::Compare(..)
        | SqlCond::Like { .. }
        | SqlCond::IsNull { .. }
        | SqlCond::Between { .. }
        | SqlCond::InList { .. }
        | SqlCond::Test { .. }
        | SqlCond::Any(_) => plain_conjunct(alloc, walk, around, cond, before),
    }
}

// The conjuncts of WHERE, if it is written.
#[cycle(walk)]
fn filters(
    alloc: Global,
    walk: &mut Walk,
    around: &Around<'_>,
    filter: &Option<SqlCond>,
) -> Result<Conjuncts, JudgeFault>
    ensures { Walks (conjunct.where_walk around.now (option_map condition filter.now) walk.old) result walk.new }
{
    match filter {
        Some(cond) => conjuncts(alloc, walk, around, cond, no_conjuncts(alloc)),
        None => Ok(no_conjuncts(alloc)),
    }
}

#[cycle(walk)]
fn derived_table(
    alloc: Global,
    catalog: &Catalog,
    walk: &mut Walk,
    inner: &Query,
    alias: &Str,
    outers: &[ListOf<Entry>],
) -> Result<Element, JudgeFault>
    ensures { Walks (from.derived_table (spec.query_walk inner.now) alias.now catalog.now outers.now walk.old) result walk.new }
{
    let walked = query(alloc, catalog, walk, inner, Role::DerivedTable, outers)?;
    derived(alloc, walk, alias, walked)
}

// What can be joined.
#[cycle(walk)]
fn element(
    alloc: Global,
    catalog: &Catalog,
    walk: &mut Walk,
    primary: &Primary,
    outers: &[ListOf<Entry>],
) -> Result<Element, JudgeFault>
    ensures { Walks (spec.element primary.now catalog.now outers.now walk.old) result walk.new }
{
    match primary {
        Primary::Named { table, alias } => named(alloc, catalog, walk, table, alias),
        Primary::Derived { query, alias } => {
            derived_table(alloc, catalog, walk, query.get(), alias, outers)
        }
        Primary::Paren(table) => joined_table(alloc, catalog, walk, table.get(), outers),
    }
}

// A join with what stands on its left.
#[cycle(walk)]
fn join(
    alloc: Global,
    catalog: &Catalog,
    walk: &mut Walk,
    part: &JoinPart,
    outers: &[ListOf<Entry>],
    left: Element,
) -> Result<Element, JudgeFault>
    ensures { Walks (spec.join part.now catalog.now outers.now left walk.old) result walk.new }
{
    match element(alloc, catalog, walk, &part.right, outers) {
        Ok(right) => joined(alloc, walk, outers, part.word, &part.on, left, right),
        Err(fault) => {
            drop(left);
            Err(fault)
        }
    }
}

#[cycle(walk)]
#[tactic(auto, using(pdw_resolve::proofs::Turns::turns))]
fn joins(
    alloc: Global,
    catalog: &Catalog,
    walk: &mut Walk,
    parts: &[JoinPart],
    outers: &[ListOf<Entry>],
    first: Element,
) -> Result<Element, JudgeFault>
    ensures { Walks (over (from.join_after catalog.now outers.now) first (map spec.join parts.now) walk.old) result walk.new }
{
    let mut left = first;
    for part in parts {
        left = join(alloc, catalog, walk, part, outers, left)?;
    }
    Ok(left)
}

// A first table and those that are joined to it.
#[cycle(walk)]
fn joined_table(
    alloc: Global,
    catalog: &Catalog,
    walk: &mut Walk,
    table: &TableRef,
    outers: &[ListOf<Entry>],
) -> Result<Element, JudgeFault>
    ensures { Walks (spec.table_ref table.now catalog.now outers.now walk.old) result walk.new }
{
    let first = element(alloc, catalog, walk, &table.first, outers)?;
    joins(alloc, catalog, walk, table.joins.as_slice(), outers, first)
}

// An element of FROM after those before it.
#[cycle(walk)]
fn source(
    alloc: Global,
    catalog: &Catalog,
    walk: &mut Walk,
    table: &TableRef,
    outers: &[ListOf<Entry>],
    before: Sources,
) -> Result<Sources, JudgeFault>
    ensures { Walks (from.source catalog.now outers.now before (spec.table_ref table.now) walk.old) result walk.new }
{
    match joined_table(alloc, catalog, walk, table, outers) {
        Ok(next) => Ok(with_element(before, next)?),
        Err(fault) => {
            drop(before);
            Err(fault)
        }
    }
}

// The elements of FROM.
#[cycle(walk)]
#[tactic(auto, using(pdw_resolve::proofs::Turns::turns))]
fn sources(
    alloc: Global,
    catalog: &Catalog,
    walk: &mut Walk,
    tables: &[TableRef],
    outers: &[ListOf<Entry>],
) -> Result<Sources, JudgeFault>
    ensures { Walks (over (from.source catalog.now outers.now) from.no_sources (map spec.table_ref tables.now) walk.old) result walk.new }
{
    let mut found = no_sources(alloc);
    for table in tables {
        found = source(alloc, catalog, walk, table, outers, found)?;
    }
    Ok(found)
}

// A query from WHERE on.
#[cycle(walk)]
#[tactic(auto, unfolding(pdw_walk::specs::Queries::after_from), using(pdw_resolve::proofs::Nodes::grouped_same))]
fn after_from<'a>(
    alloc: Global,
    catalog: &'a Catalog,
    walk: &mut Walk,
    query: &'a Query,
    role: Role,
    outers: &'a [ListOf<Entry>],
    sources: Sources,
) -> Result<Walked, JudgeFault>
    ensures { Walks (spec.after_from (text query.now) catalog.now role outers.now sources walk.old) result walk.new }
{
    let Sources { own, drafts } = sources;
    let is_grouped = is_grouped(query);
    let around = Around {
        catalog,
        own: own.as_slice(),
        outers,
        correlated: is_correlated(role, is_grouped),
    };
    let conjuncts = filters(alloc, walk, &around, &query.filter)?;
    let frame = Frame {
        query,
        role,
        outers,
        own: own.as_slice(),
        is_grouped,
    };
    after_where(alloc, walk, &frame, drafts, conjuncts)
}

// The parts of a query.
#[cycle(walk)]
#[tactic(auto, unfolding(pdw_walk::specs::Queries::parts_walk))]
fn parts(
    alloc: Global,
    catalog: &Catalog,
    walk: &mut Walk,
    query: &Query,
    role: Role,
    outers: &[ListOf<Entry>],
) -> Result<Walked, JudgeFault>
    ensures { Walks (spec.parts_walk (text query.now) catalog.now role outers.now walk.old) result walk.new }
{
    let sources = sources(alloc, catalog, walk, query.from.as_slice(), outers)?;
    after_from(alloc, catalog, walk, query, role, outers, sources)
}

/// A query in its role, within the scopes that enclose it, the innermost first.
#[cycle(walk)]
#[tactic(auto, unfolding(pdw_walk::specs::Queries::query_step))]
pub fn query(
    alloc: Global,
    catalog: &Catalog,
    walk: &mut Walk,
    query: &Query,
    role: Role,
    outers: &[ListOf<Entry>],
) -> Result<Walked, JudgeFault>
    ensures { Walks (spec.query catalog.now query.now role outers.now walk.old) result walk.new }
{
    walk.count_query()?;
    let outside = walk.begin_query(alloc);
    let walked = parts(alloc, catalog, walk, query, role, outers)?;
    walk.end_query(outside);
    Ok(walked)
}
