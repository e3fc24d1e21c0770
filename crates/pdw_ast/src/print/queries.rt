//! Conditions, FROM and queries.

ghost use Rattle.std.specs.Prelude.{◌≡◌, [], ◌∷◌, ◌++◌, map, OnOk};
ghost use Rattle.std.specs.List.{flat_map};
ghost use Rattle.std.specs.Option.{option_map};
ghost use Rattle.pdw_lex.specs.declared.keyword.Keyword.TheVariants as k;
ghost use Rattle.pdw_ast.specs.Puts as spelling;
ghost use Rattle.pdw_ast.specs.Puts.{puts};
ghost use Rattle.pdw_ast.specs.Spelling as spec;
ghost use Rattle.pdw_ast.specs.Written.{key};

use crate::print::exprs::{print_alias, print_as, print_column, print_expr, print_exprs};
use crate::print::words::Words;
use crate::{ColRef, Item, Items, JoinPart, JoinWord, Primary, Query, SqlCond, SqlExpr, TableRef};
use pdw_base::{NoMemory, Str, Truth};
use pdw_expr::Cmp;
use pdw_lex::Keyword;

fn comparison_sign(comparison: Cmp) -> &'static str
    ensures { result.now ≡ (spec.comparison comparison).bytes }
{
    match comparison {
        Cmp::Eq => "=",
        Cmp::Ne => "<>",
        Cmp::Lt => "<",
        Cmp::Le => "<=",
        Cmp::Gt => ">",
        Cmp::Ge => ">=",
    }
}

fn truth_word(truth: Truth) -> Keyword
    ensures { key result ≡ spec.truth_word truth }
{
    match truth {
        Truth::True => Keyword::KwTrue,
        Truth::False => Keyword::KwFalse,
        Truth::Unknown => Keyword::KwUnknown,
    }
}

fn join_word(word: JoinWord) -> Keyword
    ensures { key result ≡ spec.join_word word }
{
    match word {
        JoinWord::Cross => Keyword::KwCross,
        JoinWord::Inner => Keyword::KwInner,
        JoinWord::Left => Keyword::KwLeft,
        JoinWord::Right => Keyword::KwRight,
        JoinWord::Full => Keyword::KwFull,
    }
}

// NOT where it is negated.
fn print_negation(words: &mut Words, negated: bool) -> Result<(), NoMemory>
    ensures { OnOk result (words.new ≡ puts words.old (spec.negation negated)) }
{
    if negated {
        words.push_key(Keyword::KwNot)?;
    }
    Ok(())
}

fn print_item(words: &mut Words, item: &Item) -> Result<(), NoMemory>
    ensures { OnOk result (words.new ≡ puts words.old (spec.made_item item.now)) }
{
    match item {
        Item::AliasStar(alias) => {
            words.push(alias.text())?;
            words.push(".")?;
            words.push("*")
        }
        Item::Made { value, name } => {
            print_expr(words, value)?;
            print_alias(words, name)
        }
    }
}

fn print_item_list(words: &mut Words, items: &[Item]) -> Result<(), NoMemory>
    ensures { OnOk result (words.new ≡ puts words.old (spec.comma_list (map spec.made_item items.now))) }
{
    if let Some((first, rest)) = items.split_first() {
        print_item(words, first)?;
        for next in rest {
            words.push(",")?;
            print_item(words, next)?;
        }
    }
    Ok(())
}

fn print_items(words: &mut Words, items: &Items) -> Result<(), NoMemory>
    ensures { OnOk result (words.new ≡ puts words.old (spec.selected items.now)) }
{
    match items {
        Items::Star => words.push("*"),
        Items::List(list) => print_item_list(words, list.as_slice()),
    }
}

fn print_group_clause(words: &mut Words, columns: &[ColRef]) -> Result<(), NoMemory>
    ensures { OnOk result (words.new ≡ puts words.old (spec.group_clause columns.now)) }
{
    if let Some((first, rest)) = columns.split_first() {
        words.push_key(Keyword::KwGroup)?;
        words.push_key(Keyword::KwBy)?;
        print_column(words, first)?;
        for next in rest {
            words.push(",")?;
            print_column(words, next)?;
        }
    }
    Ok(())
}

fn print_comparison(
    words: &mut Words,
    comparison: Cmp,
    left: &SqlExpr,
    right: &SqlExpr,
) -> Result<(), NoMemory>
    ensures { OnOk result (words.new ≡ puts words.old (spec.expr left.now ++ spec.comparison comparison ∷ spec.expr right.now)) }
{
    print_expr(words, left)?;
    words.push(comparison_sign(comparison))?;
    print_expr(words, right)
}

fn print_like(
    words: &mut Words,
    negated: bool,
    value: &SqlExpr,
    pattern: &SqlExpr,
) -> Result<(), NoMemory>
    ensures { OnOk result (words.new ≡ puts words.old (spec.expr value.now ++ spec.negation negated ++ key k.KwLike ∷ spec.expr pattern.now)) }
{
    print_expr(words, value)?;
    print_negation(words, negated)?;
    words.push_key(Keyword::KwLike)?;
    print_expr(words, pattern)
}

fn print_is_null(words: &mut Words, negated: bool, value: &SqlExpr) -> Result<(), NoMemory>
    ensures { OnOk result (words.new ≡ puts words.old (spec.expr value.now ++ key k.KwIs ∷ (spec.negation negated ++ key k.KwNull ∷ []))) }
{
    print_expr(words, value)?;
    words.push_key(Keyword::KwIs)?;
    print_negation(words, negated)?;
    words.push_key(Keyword::KwNull)
}

fn print_between(
    words: &mut Words,
    negated: bool,
    value: &SqlExpr,
    low: &SqlExpr,
    high: &SqlExpr,
) -> Result<(), NoMemory>
    ensures { OnOk result (words.new ≡ puts words.old (spec.expr value.now ++ spec.negation negated ++ key k.KwBetween ∷ (spec.expr low.now ++ key k.KwAnd ∷ spec.expr high.now))) }
{
    print_expr(words, value)?;
    print_negation(words, negated)?;
    words.push_key(Keyword::KwBetween)?;
    print_expr(words, low)?;
    words.push_key(Keyword::KwAnd)?;
    print_expr(words, high)
}

fn print_in_list(
    words: &mut Words,
    negated: bool,
    value: &SqlExpr,
    list: &[SqlExpr],
) -> Result<(), NoMemory>
    ensures { OnOk result (words.new ≡ puts words.old (spec.expr value.now ++ spec.negation negated ++ key k.KwIn ∷ spec.parenthesized (spec.comma_list (map spec.expr list.now)))) }
{
    print_expr(words, value)?;
    print_negation(words, negated)?;
    words.push_key(Keyword::KwIn)?;
    words.push("(")?;
    print_exprs(words, list)?;
    words.push(")")
}

// A query in parentheses.
#[cycle(query)]
fn print_subquery(words: &mut Words, query: &Query) -> Result<(), NoMemory>
    ensures { OnOk result (words.new ≡ puts words.old (spec.parenthesized (spec.query query.now))) }
{
    words.push("(")?;
    print_query(words, query)?;
    words.push(")")
}

// The conditions with the keyword between each two.
#[cycle(query)]
fn print_conds(words: &mut Words, keyword: Keyword, conds: &[SqlCond]) -> Result<(), NoMemory>
    ensures { OnOk result (words.new ≡ puts words.old (spec.keyword_list keyword (map spelling.cond conds.now))) }
{
    if let Some((first, rest)) = conds.split_first() {
        print_cond(words, first)?;
        for next in rest {
            words.push_key(keyword)?;
            print_cond(words, next)?;
        }
    }
    Ok(())
}

#[cycle(query)]
fn print_in_query(
    words: &mut Words,
    query: &Query,
    value: &SqlExpr,
    negated: bool,
) -> Result<(), NoMemory>
    ensures { OnOk result (words.new ≡ puts words.old (spec.expr value.now ++ spec.negation negated ++ key k.KwIn ∷ spec.parenthesized (spec.query query.now))) }
{
    print_expr(words, value)?;
    print_negation(words, negated)?;
    words.push_key(Keyword::KwIn)?;
    print_subquery(words, query)
}

#[cycle(query)]
fn print_test(
    words: &mut Words,
    negated: bool,
    cond: &SqlCond,
    truth: Truth,
) -> Result<(), NoMemory>
    ensures { OnOk result (words.new ≡ puts words.old (spelling.cond cond.now ++ key k.KwIs ∷ (spec.negation negated ++ spec.truth_word truth ∷ []))) }
{
    print_cond(words, cond)?;
    words.push_key(Keyword::KwIs)?;
    print_negation(words, negated)?;
    words.push_key(truth_word(truth))
}

#[cycle(query)]
fn print_cond_in_parentheses(words: &mut Words, cond: &SqlCond) -> Result<(), NoMemory>
    ensures { OnOk result (words.new ≡ puts words.old (spec.parenthesized (spelling.cond cond.now))) }
{
    words.push("(")?;
    print_cond(words, cond)?;
    words.push(")")
}

#[cycle(query)]
fn print_cond(words: &mut Words, cond: &SqlCond) -> Result<(), NoMemory>
    ensures { OnOk result (words.new ≡ puts words.old (spelling.cond cond.now)) }
{
    match cond {
        SqlCond::Compare(comparison, left, right) => {
            print_comparison(words, *comparison, left, right)
        },
        SqlCond::Like {
            negated,
            value,
            pattern,
        } => print_like(words, *negated, value, pattern),
        SqlCond::IsNull { negated, value } => print_is_null(words, *negated, value),
        SqlCond::Between {
            negated,
            value,
            low,
            high,
        } => print_between(words, *negated, value, low, high),
        SqlCond::InList {
            negated,
            value,
            list,
        } => print_in_list(words, *negated, value, list.as_slice()),
        SqlCond::InQuery {
            negated,
            value,
            query,
        } => print_in_query(words, query.get(), value, *negated),
        SqlCond::Exists(query) => {
            words.push_key(Keyword::KwExists)?;
            print_subquery(words, query.get())
        }
        SqlCond::Test {
            negated,
            cond,
            truth,
        } => print_test(words, *negated, cond.get(), *truth),
        SqlCond::Not(cond) => {
            words.push_key(Keyword::KwNot)?;
            print_cond(words, cond.get())
        }
        SqlCond::All(conds) => print_conds(words, Keyword::KwAnd, conds.as_slice()),
        SqlCond::Any(conds) => print_conds(words, Keyword::KwOr, conds.as_slice()),
        SqlCond::Paren(cond) => print_cond_in_parentheses(words, cond.get()),
    }
}

// The keyword and the condition, if there is one.
#[cycle(query)]
fn print_clause(words: &mut Words, keyword: Keyword, cond: &Option<SqlCond>) -> Result<(), NoMemory>
    ensures { OnOk result (words.new ≡ puts words.old (spec.clause keyword (option_map spelling.cond cond.now))) }
{
    if let Some(cond) = cond {
        words.push_key(keyword)?;
        print_cond(words, cond)?;
    }
    Ok(())
}

#[cycle(query)]
fn print_derived(words: &mut Words, query: &Query, alias: &Str) -> Result<(), NoMemory>
    ensures { OnOk result (words.new ≡ puts words.old (spec.parenthesized (spec.query query.now) ++ spec.alias (Some alias.now))) }
{
    print_subquery(words, query)?;
    print_as(words, alias)
}

#[cycle(query)]
fn print_table_in_parentheses(words: &mut Words, table: &TableRef) -> Result<(), NoMemory>
    ensures { OnOk result (words.new ≡ puts words.old (spec.parenthesized (spelling.table table.now))) }
{
    words.push("(")?;
    print_table(words, table)?;
    words.push(")")
}

#[cycle(query)]
fn print_primary(words: &mut Words, primary: &Primary) -> Result<(), NoMemory>
    ensures { OnOk result (words.new ≡ puts words.old (spelling.primary primary.now)) }
{
    match primary {
        Primary::Named { table, alias } => {
            words.push(table.text())?;
            print_alias(words, alias)
        }
        Primary::Derived { query, alias } => print_derived(words, query.get(), alias),
        Primary::Paren(table) => print_table_in_parentheses(words, table.get()),
    }
}

#[cycle(query)]
fn print_join(words: &mut Words, part: &JoinPart) -> Result<(), NoMemory>
    ensures { OnOk result (words.new ≡ puts words.old (spelling.join part.now)) }
{
    words.push_key(join_word(part.word))?;
    words.push_key(Keyword::KwJoin)?;
    print_primary(words, &part.right)?;
    print_clause(words, Keyword::KwOn, &part.on)
}

#[cycle(query)]
fn print_table(words: &mut Words, table: &TableRef) -> Result<(), NoMemory>
    ensures { OnOk result (words.new ≡ puts words.old (spelling.table table.now)) }
{
    print_primary(words, &table.first)?;
    for part in table.joins.as_slice() {
        print_join(words, part)?;
    }
    Ok(())
}

#[cycle(query)]
fn print_tables(words: &mut Words, tables: &[TableRef]) -> Result<(), NoMemory>
    ensures { OnOk result (words.new ≡ puts words.old (spec.comma_list (map spelling.table tables.now))) }
{
    if let Some((first, rest)) = tables.split_first() {
        print_table(words, first)?;
        for next in rest {
            words.push(",")?;
            print_table(words, next)?;
        }
    }
    Ok(())
}

/// A query.
#[cycle(query)]
pub fn print_query(words: &mut Words, query: &Query) -> Result<(), NoMemory>
    ensures { OnOk result (words.new ≡ puts words.old (spec.query query.now)) }
{
    words.push_key(Keyword::KwSelect)?;
    if query.distinct {
        words.push_key(Keyword::KwDistinct)?;
    }
    print_items(words, &query.items)?;
    words.push_key(Keyword::KwFrom)?;
    print_tables(words, query.from.as_slice())?;
    print_clause(words, Keyword::KwWhere, &query.filter)?;
    print_group_clause(words, query.group.as_slice())?;
    print_clause(words, Keyword::KwHaving, &query.having)
}
