//! Statements as texts that show their whole trees: chains in brackets, conditions in braces, queries in angles.

use itoa::Buffer;
use pdw_base::{Kind, Str, Truth};
use pdw_catalog::Column;
use pdw_expr::{AggKind, Arith, Cmp};
use pdw_syntax::{
    ColRef, CostPart, Item, Items, JoinPart, JoinWord, OrderKey, OrderName, Primary, Query, Select,
    SqlCond, SqlExpr, Statement, TableRef,
};
use std::alloc::Global;

/// A text that grows, and whether it has all its parts: one is left out where memory is wanted.
#[derive(Drop)]
pub struct Shown {
    text: String,
    whole: bool,
}

impl Shown {
    pub fn new(alloc: Global) -> Shown {
        Shown {
            text: String::new(alloc),
            whole: true,
        }
    }

    /// Adds a part.
    pub fn put(&mut self, part: &str) {
        if self.text.push_str(part).is_err() {
            self.whole = false;
        }
    }

    /// Adds a number.
    pub fn put_number(&mut self, number: i64) {
        self.put(Buffer::new().format(number));
    }

    /// Whether the text is this one, and has all its parts.
    pub fn is(&self, wanted: &str) -> bool {
        self.whole && self.text.as_str() == wanted
    }
}

fn arith(operator: Arith) -> &'static str {
    match operator {
        Arith::Add => " + ",
        Arith::Sub => " - ",
        Arith::Mul => " * ",
        Arith::Div => " / ",
        Arith::Rem => " % ",
    }
}

fn comparison(operator: Cmp) -> &'static str {
    match operator {
        Cmp::Eq => " = ",
        Cmp::Ne => " <> ",
        Cmp::Lt => " < ",
        Cmp::Le => " <= ",
        Cmp::Gt => " > ",
        Cmp::Ge => " >= ",
    }
}

fn aggregate(kind: AggKind) -> &'static str {
    match kind {
        AggKind::CountStar => "countstar",
        AggKind::Count => "count",
        AggKind::Sum => "sum",
        AggKind::Min => "min",
        AggKind::Max => "max",
    }
}

fn truth(truth: Truth) -> &'static str {
    match truth {
        Truth::True => " true",
        Truth::False => " false",
        Truth::Unknown => " unknown",
    }
}

fn join(word: JoinWord) -> &'static str {
    match word {
        JoinWord::Cross => " cross ",
        JoinWord::Inner => " inner ",
        JoinWord::Left => " left ",
        JoinWord::Right => " right ",
        JoinWord::Full => " full ",
    }
}

fn kind(kind: Kind) -> &'static str {
    match kind {
        Kind::Int => " int",
        Kind::Text => " text",
        Kind::Wide => " wide",
    }
}

fn cost(part: CostPart) -> &'static str {
    match part {
        CostPart::Reader => "Reader",
        CostPart::HashReader => "HashReader",
        CostPart::Network => "Network",
        CostPart::Writer => "Writer",
        CostPart::Bulk => "Bulk",
        CostPart::Control => "Control",
    }
}

fn not(negated: bool) -> &'static str {
    if negated { " not" } else { "" }
}

fn quoted(out: &mut Shown, text: &Str) {
    out.put("'");
    out.put(text.text());
    out.put("'");
}

fn alias(out: &mut Shown, name: &Option<Str>) {
    if let Some(name) = name {
        out.put(" as ");
        out.put(name.text());
    }
}

fn column(out: &mut Shown, column: &ColRef) {
    if let Some(table) = &column.alias {
        out.put(table.text());
        out.put(".");
    }
    out.put(column.column.text());
}

fn expr(out: &mut Shown, shown: &SqlExpr) {
    match shown {
        SqlExpr::Col(reference) => column(out, reference),
        SqlExpr::Number(value) => out.put_number(*value),
        SqlExpr::Text(text) => quoted(out, text),
        SqlExpr::Signed { minus, value } => {
            out.put(if *minus { "-" } else { "+" });
            expr(out, value.get());
        }
        SqlExpr::Chain { first, rest } => {
            out.put("[");
            expr(out, first.get());
            for link in rest.as_slice() {
                out.put(arith(link.0));
                expr(out, &link.1);
            }
            out.put("]");
        }
        SqlExpr::Agg { kind, arg } => {
            out.put(aggregate(*kind));
            out.put("(");
            if let Some(value) = arg {
                expr(out, value.get());
            }
            out.put(")");
        }
        SqlExpr::Paren(inner) => {
            out.put("(");
            expr(out, inner.get());
            out.put(")");
        }
    }
}

fn exprs(out: &mut Shown, shown: &[SqlExpr]) {
    for value in shown {
        out.put(" ");
        expr(out, value);
    }
}

fn item(out: &mut Shown, shown: &Item) {
    match shown {
        Item::AliasStar(table) => {
            out.put(table.text());
            out.put(".*");
        }
        Item::Made { value, name } => {
            expr(out, value);
            alias(out, name);
        }
    }
}

fn items(out: &mut Shown, shown: &Items) {
    match shown {
        Items::Star => out.put(" *"),
        Items::List(list) => {
            for part in list.as_slice() {
                out.put(" ");
                item(out, part);
            }
        }
    }
}

#[cycle(show)]
fn primary(out: &mut Shown, shown: &Primary) {
    match shown {
        Primary::Named { table, alias: name } => {
            out.put(table.text());
            alias(out, name);
        }
        Primary::Derived {
            query: made,
            alias: name,
        } => {
            query(out, made.get());
            out.put(" as ");
            out.put(name.text());
        }
        Primary::Paren(inner) => {
            out.put("(");
            table(out, inner.get());
            out.put(")");
        }
    }
}

#[cycle(show)]
fn joined(out: &mut Shown, part: &JoinPart) {
    out.put(join(part.word));
    primary(out, &part.right);
    clause(out, " on ", &part.on);
}

#[cycle(show)]
fn table(out: &mut Shown, shown: &TableRef) {
    primary(out, &shown.first);
    for part in shown.joins.as_slice() {
        joined(out, part);
    }
}

#[cycle(show)]
fn tables(out: &mut Shown, shown: &[TableRef]) {
    for source in shown {
        out.put(" [");
        table(out, source);
        out.put("]");
    }
}

// A condition after a word, if there is one.
#[cycle(show)]
fn clause(out: &mut Shown, word: &str, shown: &Option<SqlCond>) {
    if let Some(part) = shown {
        out.put(word);
        cond(out, part);
    }
}

fn keys(out: &mut Shown, shown: &[ColRef]) {
    for key in shown {
        out.put(" by ");
        column(out, key);
    }
}

#[cycle(show)]
fn query(out: &mut Shown, shown: &Query) {
    out.put(if shown.distinct { "<distinct" } else { "<all" });
    items(out, &shown.items);
    out.put(" from");
    tables(out, shown.from.as_slice());
    clause(out, " where ", &shown.filter);
    keys(out, shown.group.as_slice());
    clause(out, " having ", &shown.having);
    out.put(">");
}

#[cycle(show)]
fn conds(out: &mut Shown, shown: &[SqlCond]) {
    for part in shown {
        out.put(" ");
        cond(out, part);
    }
}

// A value, and the word of its predicate with NOT before it, if that is written.
fn tested(out: &mut Shown, value: &SqlExpr, negated: bool, word: &str) {
    expr(out, value);
    out.put(not(negated));
    out.put(word);
}

// A predicate that holds no query.
fn predicate(out: &mut Shown, shown: &SqlCond) {
    match shown {
        SqlCond::Compare(operator, left, right) => {
            expr(out, left);
            out.put(comparison(*operator));
            expr(out, right);
        }
        SqlCond::Like {
            negated,
            value,
            pattern,
        } => {
            tested(out, value, *negated, " like ");
            expr(out, pattern);
        }
        SqlCond::IsNull { negated, value } => {
            expr(out, value);
            out.put(" is");
            out.put(not(*negated));
            out.put(" null");
        }
        SqlCond::Between {
            negated,
            value,
            low,
            high,
        } => {
            tested(out, value, *negated, " between ");
            expr(out, low);
            out.put(" and ");
            expr(out, high);
        }
        SqlCond::InList {
            negated,
            value,
            list,
        } => {
            tested(out, value, *negated, " in");
            exprs(out, list.as_slice());
        }
        _ => {}
    }
}

// A condition that has no parentheses around it, without its braces.
#[cycle(show)]
fn inner(out: &mut Shown, shown: &SqlCond) {
    match shown {
        SqlCond::InQuery {
            negated,
            value,
            query: among,
        } => {
            tested(out, value, *negated, " in ");
            query(out, among.get());
        }
        SqlCond::Exists(rows) => {
            out.put("exists ");
            query(out, rows.get());
        }
        SqlCond::Test {
            negated,
            cond: part,
            truth: wanted,
        } => {
            cond(out, part.get());
            out.put(" is");
            out.put(not(*negated));
            out.put(truth(*wanted));
        }
        SqlCond::Not(part) => {
            out.put("not ");
            cond(out, part.get());
        }
        SqlCond::All(parts) => {
            out.put("and");
            conds(out, parts.as_slice());
        }
        SqlCond::Any(parts) => {
            out.put("or");
            conds(out, parts.as_slice());
        }
        other => predicate(out, other),
    }
}

#[cycle(show)]
fn cond(out: &mut Shown, shown: &SqlCond) {
    if let SqlCond::Paren(part) = shown {
        out.put("(");
        cond(out, part.get());
        out.put(")");
        return;
    }
    out.put("{");
    inner(out, shown);
    out.put("}");
}

fn order_key(out: &mut Shown, shown: &OrderKey) {
    out.put(" order ");
    match &shown.name {
        OrderName::Name(name) => out.put(name.text()),
        OrderName::Position(position) => out.put_number(*position),
    }
    out.put(if shown.descending { " desc" } else { "" });
}

fn select(out: &mut Shown, word: &str, shown: &Select) {
    out.put(word);
    query(out, &shown.query);
    for key in shown.order.as_slice() {
        order_key(out, key);
    }
}

fn columns(out: &mut Shown, shown: &[Column]) {
    for part in shown {
        out.put(" (");
        out.put(part.name.text());
        out.put(kind(part.kind));
        out.put(if part.nullable { ")" } else { " not null)" });
    }
}

fn statistics(out: &mut Shown, shown: &[(Str, i64, i64)]) {
    for part in shown {
        out.put(" (");
        out.put(part.0.text());
        out.put(" ");
        out.put_number(part.1);
        out.put(" ");
        out.put_number(part.2);
        out.put(")");
    }
}

fn placed(out: &mut Shown, hash: &Option<Str>) {
    match hash {
        Some(by) => {
            out.put(" hash ");
            out.put(by.text());
        }
        None => out.put(" replicate"),
    }
}

// A word and a name.
fn named(out: &mut Shown, word: &str, name: &Str) {
    out.put(word);
    out.put(name.text());
}

// A statement that holds no SELECT.
fn plain(out: &mut Shown, shown: &Statement) {
    match shown {
        Statement::CreateNamed {
            table: name,
            columns: made,
            hash,
        } => {
            named(out, "create ", name);
            columns(out, made.as_slice());
            placed(out, hash);
        }
        Statement::Drop(name) => named(out, "drop ", name),
        Statement::Load { table: name, file } => {
            named(out, "load ", name);
            out.put(" ");
            quoted(out, file);
        }
        Statement::Measure(name) => named(out, "measure ", name),
        Statement::Hand {
            table: name,
            rows,
            cols,
        } => {
            named(out, "hand ", name);
            out.put(" ");
            out.put_number(*rows);
            statistics(out, cols.as_slice());
        }
        Statement::Budget(amount) => {
            out.put("budget ");
            out.put_number(*amount);
        }
        Statement::Cost { part, amount } => {
            out.put("cost ");
            out.put(cost(*part));
            out.put(" ");
            out.put_number(*amount);
        }
        _ => {}
    }
}

/// Shows a statement at the end of the text.
pub fn statement(out: &mut Shown, shown: &Statement) {
    match shown {
        Statement::Select(stated) => select(out, "", stated),
        Statement::Explain(explained) => select(out, "explain ", explained),
        Statement::ExplainJson(explained) => select(out, "json ", explained),
        Statement::Profile(profiled) => select(out, "profile ", profiled),
        Statement::CheckPlan {
            file,
            select: checked,
        } => {
            out.put("check ");
            quoted(out, file);
            select(out, " ", checked);
        }
        other => plain(out, other),
    }
}
