//! Judged statements as texts: columns are `#` and their numbers.

use itoa::Buffer;
use pdw_base::{ColId, Str, Truth, Value};
use pdw_catalog::{Placing, Table};
use pdw_expr::{Agg, AggKind, Arith, Cmp, Cond, Scalar};
use pdw_form::{JFrom, JGroup, JItem, JSub, Judged, JudgedQuery, JudgedSelect};
use pdw_syntax::{CostPart, JoinWord};
use pdw_walk::{JudgeFault, LimitName};
use std::alloc::AllocError;

fn arith(operator: Arith) -> &'static str {
    match operator {
        Arith::Add => " + ",
        Arith::Sub => " - ",
        Arith::Mul => " * ",
        Arith::Div => " / ",
        Arith::Rem => " % ",
    }
}

fn comparison(operator: Cmp) -> &'static str {
    match operator {
        Cmp::Eq => " = ",
        Cmp::Ne => " <> ",
        Cmp::Lt => " < ",
        Cmp::Le => " <= ",
        Cmp::Gt => " > ",
        Cmp::Ge => " >= ",
    }
}

fn truth(truth: Truth) -> &'static str {
    match truth {
        Truth::True => " is true",
        Truth::False => " is false",
        Truth::Unknown => " is unknown",
    }
}

fn join(word: JoinWord) -> &'static str {
    match word {
        JoinWord::Cross => " cross ",
        JoinWord::Inner => " inner ",
        JoinWord::Left => " left ",
        JoinWord::Right => " right ",
        JoinWord::Full => " full ",
    }
}

fn aggregate_name(kind: AggKind) -> &'static str {
    match kind {
        AggKind::CountStar => " countstar(",
        AggKind::Count => " count(",
        AggKind::Sum => " sum(",
        AggKind::Min => " min(",
        AggKind::Max => " max(",
    }
}

fn part_name(part: CostPart) -> &'static str {
    match part {
        CostPart::Reader => "reader",
        CostPart::HashReader => "hashreader",
        CostPart::Network => "network",
        CostPart::Writer => "writer",
        CostPart::Bulk => "bulk",
        CostPart::Control => "control",
    }
}

fn limit_name(which: LimitName) -> &'static str {
    match which {
        LimitName::Script => "script",
        LimitName::File => "file",
        LimitName::Tables => "tables",
        LimitName::Columns => "columns",
        LimitName::Rows => "rows",
        LimitName::References => "references",
        LimitName::Used => "used",
        LimitName::Items => "items",
        LimitName::Queries => "queries",
    }
}

fn integer(out: &mut String, value: i64) -> Result<(), AllocError> {
    out.push_str(Buffer::new().format(value))
}

fn natural(out: &mut String, value: u64) -> Result<(), AllocError> {
    out.push_str(Buffer::new().format(value))
}

// A word or a mark and a text after it.
fn named(out: &mut String, word: &str, name: &Str) -> Result<(), AllocError> {
    out.push_str(word)?;
    out.push_str(name.text())
}

// A word or a mark and a number after it.
fn counted(out: &mut String, word: &str, count: u64) -> Result<(), AllocError> {
    out.push_str(word)?;
    natural(out, count)
}

pub fn column(out: &mut String, id: ColId) -> Result<(), AllocError> {
    counted(out, "#", u64::from(id.0))
}

fn value(out: &mut String, shown: &Value) -> Result<(), AllocError> {
    match shown {
        Value::Int(number) => integer(out, *number),
        Value::Text(text) => out.push_str(text.text()),
        _ => out.push_str("?"),
    }
}

pub fn scalar(out: &mut String, shown: &Scalar) -> Result<(), AllocError> {
    match shown {
        Scalar::Col(id) => column(out, *id),
        Scalar::Lit(literal) => value(out, literal),
        Scalar::Neg(inner) => {
            out.push_str("-")?;
            scalar(out, inner.get())
        }
        Scalar::Chain(first, rest) => {
            out.push_str("[")?;
            scalar(out, first.get())?;
            for link in rest.as_slice() {
                out.push_str(arith(link.0))?;
                scalar(out, &link.1)?;
            }
            out.push_str("]")
        }
    }
}

// Two values with a word between them.
fn pair(out: &mut String, left: &Scalar, word: &str, right: &Scalar) -> Result<(), AllocError> {
    scalar(out, left)?;
    out.push_str(word)?;
    scalar(out, right)
}

#[cycle(conditions)]
fn cond(out: &mut String, shown: &Cond) -> Result<(), AllocError> {
    match shown {
        Cond::Compare(operator, left, right) => pair(out, left, comparison(*operator), right),
        Cond::Like(text, pattern) => pair(out, text, " like ", pattern),
        Cond::IsNull(tested) => {
            scalar(out, tested)?;
            out.push_str(" is null")
        }
        Cond::Test(part, wanted) => {
            cond(out, part.get())?;
            out.push_str(truth(*wanted))
        }
        Cond::Not(part) => {
            out.push_str("not ")?;
            cond(out, part.get())
        }
        Cond::All(parts) => {
            out.push_str("all{")?;
            conds(out, parts.as_slice())?;
            out.push_str("}")
        }
        Cond::Any(parts) => {
            out.push_str("any{")?;
            conds(out, parts.as_slice())?;
            out.push_str("}")
        }
    }
}

#[cycle(conditions)]
pub fn conds(out: &mut String, shown: &[Cond]) -> Result<(), AllocError> {
    for part in shown {
        out.push_str(" ")?;
        cond(out, part)?;
    }
    Ok(())
}

fn some_conds(out: &mut String, word: &str, shown: &[Cond]) -> Result<(), AllocError> {
    if shown.is_empty() {
        return Ok(());
    }
    out.push_str(word)?;
    conds(out, shown)
}

fn used_columns(out: &mut String, shown: &[(ColId, u32)]) -> Result<(), AllocError> {
    for used in shown {
        counted(out, " ", u64::from(used.0.0))?;
        counted(out, ":", u64::from(used.1))?;
    }
    Ok(())
}

pub fn table(
    out: &mut String,
    name: &Str,
    alias: &Str,
    used: &[(ColId, u32)],
) -> Result<(), AllocError> {
    out.push_str(name.text())?;
    named(out, " ", alias)?;
    out.push_str("(")?;
    used_columns(out, used)?;
    out.push_str(")")
}

fn aggregate(out: &mut String, shown: &Agg) -> Result<(), AllocError> {
    out.push_str(aggregate_name(shown.kind))?;
    if let Some(argument) = &shown.arg {
        scalar(out, argument)?;
    }
    out.push_str(")")?;
    column(out, shown.out)
}

pub fn aggregates(out: &mut String, shown: &[Agg]) -> Result<(), AllocError> {
    for part in shown {
        aggregate(out, part)?;
    }
    Ok(())
}

pub fn keys(out: &mut String, shown: &[ColId]) -> Result<(), AllocError> {
    for key in shown {
        out.push_str(" ")?;
        column(out, *key)?;
    }
    Ok(())
}

fn group(out: &mut String, shown: &JGroup) -> Result<(), AllocError> {
    out.push_str(" group")?;
    keys(out, shown.keys.as_slice())?;
    aggregates(out, shown.aggs.as_slice())?;
    some_conds(out, " having", shown.having.as_slice())
}

fn item(out: &mut String, shown: &JItem) -> Result<(), AllocError> {
    named(out, " ", &shown.name)?;
    column(out, shown.out)?;
    if let Some(made) = &shown.make {
        out.push_str("=")?;
        scalar(out, made)?;
    }
    Ok(())
}

fn items(out: &mut String, shown: &[JItem]) -> Result<(), AllocError> {
    for part in shown {
        item(out, part)?;
    }
    Ok(())
}

// The conjuncts of a query without subqueries.
fn wheres(out: &mut String, shown: &JudgedQuery) -> Result<(), AllocError> {
    some_conds(out, " plain", shown.plain.as_slice())?;
    some_conds(out, " outer", shown.outer.as_slice())
}

// The groups and the output columns of a query.
fn results(out: &mut String, shown: &JudgedQuery) -> Result<(), AllocError> {
    if let Some(grouping) = &shown.group {
        group(out, grouping)?;
    }
    out.push_str(if shown.distinct {
        " distinct"
    } else {
        " items"
    })?;
    items(out, shown.items.as_slice())
}

// What stands before the query of a subquery.
fn subquery_head(out: &mut String, shown: &JSub) -> Result<(), AllocError> {
    if shown.negated {
        out.push_str(" not")?;
    }
    match &shown.left {
        Some(left) => {
            out.push_str(" in ")?;
            scalar(out, left)
        }
        None => out.push_str(" exists "),
    }
}

#[cycle(queries)]
fn element(out: &mut String, shown: &JFrom) -> Result<(), AllocError> {
    match shown {
        JFrom::Table {
            table: name,
            alias,
            cols,
        } => table(out, name, alias, cols.as_slice()),
        JFrom::Derived(inner) => query(out, inner.get()),
        JFrom::Join {
            word,
            left,
            right,
            on,
        } => {
            out.push_str("(")?;
            element(out, left.get())?;
            out.push_str(join(*word))?;
            element(out, right.get())?;
            some_conds(out, " on", on.as_slice())?;
            out.push_str(")")
        }
    }
}

#[cycle(queries)]
fn elements(out: &mut String, shown: &[JFrom]) -> Result<(), AllocError> {
    for part in shown {
        element(out, part)?;
    }
    Ok(())
}

#[cycle(queries)]
fn subqueries(out: &mut String, shown: &[JSub]) -> Result<(), AllocError> {
    for sub in shown {
        subquery_head(out, sub)?;
        query(out, &sub.query)?;
    }
    Ok(())
}

#[cycle(queries)]
fn query(out: &mut String, shown: &JudgedQuery) -> Result<(), AllocError> {
    out.push_str("<")?;
    elements(out, shown.from.as_slice())?;
    wheres(out, shown)?;
    subqueries(out, shown.subs.as_slice())?;
    results(out, shown)?;
    out.push_str(">")
}

fn order(out: &mut String, shown: &[(u32, bool)]) -> Result<(), AllocError> {
    for key in shown {
        counted(out, " ", u64::from(key.0))?;
        out.push_str(if key.1 { "-" } else { "+" })?;
    }
    Ok(())
}

fn select(out: &mut String, word: &str, shown: &JudgedSelect) -> Result<(), AllocError> {
    out.push_str(word)?;
    query(out, &shown.query)?;
    order(out, shown.order.as_slice())
}

fn create(out: &mut String, shown: &Table) -> Result<(), AllocError> {
    named(out, "create ", &shown.name)?;
    match shown.placing {
        Placing::Hash(place) => counted(out, " ", u64::from(place)),
        Placing::Replicate => Ok(()),
    }
}

fn load(out: &mut String, name: &Str, file: &Str) -> Result<(), AllocError> {
    named(out, "load ", name)?;
    named(out, " ", file)
}

fn statistics(out: &mut String, shown: &[(u32, u64, u32)]) -> Result<(), AllocError> {
    for part in shown {
        counted(out, " ", u64::from(part.0))?;
        counted(out, ":", part.1)?;
        counted(out, ":", u64::from(part.2))?;
    }
    Ok(())
}

fn hand(
    out: &mut String,
    name: &Str,
    rows: u64,
    shown: &[(u32, u64, u32)],
) -> Result<(), AllocError> {
    named(out, "hand ", name)?;
    counted(out, " ", rows)?;
    statistics(out, shown)
}

fn cost(out: &mut String, part: CostPart, amount: u32) -> Result<(), AllocError> {
    out.push_str("cost ")?;
    out.push_str(part_name(part))?;
    counted(out, " ", u64::from(amount))
}

fn check(out: &mut String, file: &Str, shown: &JudgedSelect) -> Result<(), AllocError> {
    named(out, "check ", file)?;
    select(out, " ", shown)
}

/// What a statement does.
pub fn statement(out: &mut String, shown: &Judged) -> Result<(), AllocError> {
    match shown {
        Judged::Create(made) => create(out, made),
        Judged::Drop(name) => named(out, "drop ", name),
        Judged::Load { table: name, file } => load(out, name, file),
        Judged::Measure(name) => named(out, "measure ", name),
        Judged::Hand {
            table: name,
            rows,
            cols,
        } => hand(out, name, *rows, cols.as_slice()),
        Judged::Budget(amount) => counted(out, "budget ", u64::from(*amount)),
        Judged::Cost { part, amount } => cost(out, *part, *amount),
        Judged::Select(plain) => select(out, "", plain),
        Judged::Explain(explained) => select(out, "explain ", explained),
        Judged::ExplainJson(explained) => select(out, "json ", explained),
        Judged::Profile(profiled) => select(out, "profile ", profiled),
        Judged::CheckPlan {
            file,
            select: checked,
        } => check(out, file, checked),
    }
}

fn limit(out: &mut String, which: LimitName, most: u64) -> Result<(), AllocError> {
    out.push_str("LIMIT ")?;
    out.push_str(limit_name(which))?;
    counted(out, " ", most)
}

fn setting(out: &mut String, name: &Str, amount: i64) -> Result<(), AllocError> {
    named(out, "BADSETTING ", name)?;
    out.push_str(" ")?;
    integer(out, amount)
}

/// Why a statement is refused.
pub fn fault(out: &mut String, shown: &JudgeFault) -> Result<(), AllocError> {
    match shown {
        JudgeFault::TableExists(name) => named(out, "TABLEEXISTS ", name),
        JudgeFault::UnknownTable(name) => named(out, "UNKNOWNTABLE ", name),
        JudgeFault::DuplicateName(name) => named(out, "DUPLICATENAME ", name),
        JudgeFault::UnknownColumn(name) => named(out, "UNKNOWNCOLUMN ", name),
        JudgeFault::Ambiguous(name) => named(out, "AMBIGUOUS ", name),
        JudgeFault::TypeMismatch => out.push_str("TYPEMISMATCH"),
        JudgeFault::NotGrouped(name) => named(out, "NOTGROUPED ", name),
        JudgeFault::AggregatePlace => out.push_str("AGGREGATEPLACE"),
        JudgeFault::SubqueryPlace => out.push_str("SUBQUERYPLACE"),
        JudgeFault::OuterReference(name) => named(out, "OUTERREFERENCE ", name),
        JudgeFault::Limit { which, most } => limit(out, *which, *most),
        JudgeFault::BadSetting { name, amount } => setting(out, name, *amount),
        JudgeFault::Memory => out.push_str("MEMORY"),
    }
}
