//! Queries and their trees of operators, as texts: columns are `#` and their numbers.

use super::numbered::{aggregates, column, conds, keys, scalar, table};
use super::sessions::session_of;
use pdw_algebra::Tree;
use pdw_base::{ColId, NoMemory};
use pdw_bind::bind;
use pdw_catalog::Catalog;
use pdw_expr::{Agg, Cond, JoinKind, Scalar};
use pdw_form::{Judged, JudgedQuery};
use pdw_scope::judge;
use pdw_syntax::Statement;
use pdw_test_support::statements_of;
use pdw_walk::JudgeFault;
use std::alloc::{AllocError, Global};
use std::process::Abort;
use std::test::Fail;

const TABLES: &str = "\
CREATE TABLE t (a INT, b INT) WITH (DISTRIBUTION = HASH(a));
CREATE TABLE u (c INT, d INT) WITH (DISTRIBUTION = REPLICATE);
CREATE TABLE v (e INT) WITH (DISTRIBUTION = HASH(e));
";

// A query and its tree on each line.
const TREES: &str = "\
SELECT a FROM t; => project( #0: t t( 0:0))
SELECT a FROM t WHERE b > 1; => project( #1: block(t t( 0:1 1:0): #0 > 1))
SELECT a, c FROM t, u; => project( #0 #1: block(t t( 0:0), u u( 1:0):))
SELECT a FROM t JOIN u ON a = c WHERE d < 2; => project( #0: block(t t( 0:0), u u( 1:0 2:1): #0 = #1 #2 < 2))
SELECT a FROM t LEFT JOIN u ON a = c; => project( #0: left(t t( 0:0), u u( 1:0): #0 = #1))
SELECT a FROM t RIGHT JOIN u ON a = c; => project( #0: left(u u( 1:0), t t( 0:0): #0 = #1))
SELECT a FROM t FULL JOIN u ON a = c WHERE b = 1; => project( #0: block(full(t t( 0:0 2:1), u u( 1:0): #0 = #1): #2 = 1))
SELECT a FROM (t JOIN u ON a = c) LEFT JOIN v ON d = e; => project( #0: left(block(t t( 0:0), u u( 1:0 2:1): #0 = #1), v v( 3:0): #2 = #3))
SELECT a FROM t CROSS JOIN u, v; => project( #0: block(t t( 0:0), u u(), v v():))
SELECT x.a FROM t AS x, t AS y WHERE x.a = y.b; => project( #0: block(t x( 0:0), t y( 1:1): #0 = #1))
SELECT a FROM t WHERE a BETWEEN 1 AND 2 AND b IN (3); => project( #0: block(t t( 0:0 1:1): all{ #0 >= 1 #0 <= 2} any{ #1 = 3}))
SELECT a + 1 FROM t; => project( #1=[#0 + 1]: t t( 0:0))
SELECT a, a FROM t; => project( #0: t t( 0:0))
SELECT DISTINCT a FROM t; => group( #0: project( #0: t t( 0:0)))
SELECT SUM(b) FROM t; => project( #1: group( sum(#0)#1: t t( 0:1)))
SELECT a FROM t GROUP BY a, a; => project( #0: group( #0: t t( 0:0)))
SELECT a, COUNT(*) FROM t GROUP BY a HAVING COUNT(b) > 1; => project( #0 #3: filter( #2 > 1: group( #0 count(#1)#2 countstar()#3: t t( 0:0 1:1))))
SELECT x.a FROM (SELECT a FROM t WHERE b = 1) AS x; => project( #1: project( #1: block(t t( 0:1 1:0): #0 = 1)))
SELECT a FROM t WHERE a IN (SELECT c FROM u); => project( #0: semi(t t( 0:0), u u( 1:0): #0 = #1))
SELECT a FROM t WHERE a IN (SELECT DISTINCT c FROM u); => project( #0: semi(t t( 0:0), u u( 1:0): #0 = #1))
SELECT a FROM t WHERE a IN (SELECT c + 1 FROM u); => project( #0: semi(t t( 0:0), u u( 1:0): #0 = [#1 + 1]))
SELECT a FROM t WHERE a NOT IN (SELECT c FROM u WHERE d = 1); => project( #0: anti(t t( 0:0), block(u u( 1:1 2:0): #1 = 1): not #0 = #2 is false))
SELECT a FROM t WHERE a IN (SELECT MAX(c) FROM u); => project( #0: semi(t t( 0:0), project( #2: group( max(#1)#2: u u( 1:0))): #0 = #2))
SELECT a FROM t WHERE EXISTS (SELECT * FROM u WHERE c = a); => project( #1: semi(t t( 1:0), u u( 0:0): #0 = #1))
SELECT a FROM t WHERE NOT EXISTS (SELECT COUNT(*) FROM u GROUP BY c HAVING COUNT(*) > 1); => project( #3: anti(t t( 3:0), project( #2: filter( #1 > 1: group( #0 countstar()#1 countstar()#2: u u( 0:0)))):))
SELECT a FROM t WHERE a IN (SELECT c FROM u) AND NOT EXISTS (SELECT * FROM v WHERE e = b); => project( #0: anti(semi(t t( 0:0 3:1), u u( 1:0): #0 = #1), v v( 2:0): #2 = #3))
";

fn kind_name(kind: JoinKind) -> &'static str {
    match kind {
        JoinKind::Inner => "inner(",
        JoinKind::Left => "left(",
        JoinKind::Full => "full(",
        JoinKind::Semi => "semi(",
        JoinKind::Anti => "anti(",
    }
}

fn item(out: &mut String, shown: &(ColId, Option<Scalar>)) -> Result<(), AllocError> {
    out.push_str(" ")?;
    column(out, shown.0)?;
    if let Some(made) = &shown.1 {
        out.push_str("=")?;
        scalar(out, made)?;
    }
    Ok(())
}

fn items(out: &mut String, shown: &[(ColId, Option<Scalar>)]) -> Result<(), AllocError> {
    out.push_str("project(")?;
    for part in shown {
        item(out, part)?;
    }
    Ok(())
}

fn groups(out: &mut String, shown: &[ColId], aggs: &[Agg]) -> Result<(), AllocError> {
    out.push_str("group(")?;
    keys(out, shown)?;
    aggregates(out, aggs)
}

fn filters(out: &mut String, shown: &[Cond]) -> Result<(), AllocError> {
    out.push_str("filter(")?;
    conds(out, shown)
}

// The conjuncts after the sides of a block or a join.
fn ends(out: &mut String, shown: &[Cond]) -> Result<(), AllocError> {
    out.push_str(":")?;
    conds(out, shown)?;
    out.push_str(")")
}

#[cycle(trees)]
fn over(out: &mut String, child: &Tree) -> Result<(), AllocError> {
    out.push_str(": ")?;
    tree(out, child)?;
    out.push_str(")")
}

#[cycle(trees)]
fn leaves(out: &mut String, shown: &[Tree]) -> Result<(), AllocError> {
    out.push_str("block(")?;
    for (place, leaf) in shown.iter().enumerate() {
        out.push_str(if place == 0 { "" } else { ", " })?;
        tree(out, leaf)?;
    }
    Ok(())
}

#[cycle(trees)]
fn tree(out: &mut String, shown: &Tree) -> Result<(), AllocError> {
    match shown {
        Tree::Scan {
            table: name,
            alias,
            cols,
        } => table(out, name, alias, cols.as_slice()),
        Tree::Filter { conds, child } => {
            filters(out, conds.as_slice())?;
            over(out, child.get())
        }
        Tree::Project { items: made, child } => {
            items(out, made.as_slice())?;
            over(out, child.get())
        }
        Tree::Block {
            leaves: parts,
            conds,
        } => {
            leaves(out, parts.as_slice())?;
            ends(out, conds.as_slice())
        }
        Tree::Join {
            kind,
            conds,
            left,
            right,
        } => {
            out.push_str(kind_name(*kind))?;
            tree(out, left.get())?;
            out.push_str(", ")?;
            tree(out, right.get())?;
            ends(out, conds.as_slice())
        }
        Tree::GroupBy { keys, aggs, child } => {
            groups(out, keys.as_slice(), aggs.as_slice())?;
            over(out, child.get())
        }
    }
}

fn shown(alloc: Global, query: &JudgedQuery) -> Result<String, NoMemory> {
    let mut text = String::new(alloc);
    tree(&mut text, &bind(alloc, query)?)?;
    Ok(text)
}

// The tree of a query that is judged.
fn bound(alloc: Global, judgement: &Result<Judged, JudgeFault>) -> Result<String, Fail> {
    match judgement {
        Ok(Judged::Select(select)) => Ok(shown(alloc, &select.query)?),
        _ => Err("no query")?,
    }
}

fn tree_after(alloc: Global, catalog: &Catalog, statement: &Statement) -> Result<String, Fail> {
    bound(alloc, &judge(alloc, catalog, statement))
}

fn tree_of(alloc: Global, catalog: &Catalog, script: &str) -> Result<String, Fail> {
    let statements = statements_of(alloc, script)?;
    match statements.as_slice() {
        [statement] => tree_after(alloc, catalog, statement),
        _ => Err("not one statement")?,
    }
}

#[test]
fn queries_have_their_trees(rt: HostRuntime) -> Result<(), Fail> {
    let session = session_of(rt.alloc(), TABLES)?;
    let catalog = session.appliance().catalog();
    for line in TREES.lines() {
        let (query, wanted) = line.split_once(" => ").ok_or("an arrow")?;
        let found = tree_of(rt.alloc(), catalog, query)?;
        assert_eq!(rt; found.as_str(), wanted, "{query}");
    }
    Ok(())
}
