//! Statements.

ghost use Rattle.std.specs.Prelude.{◌≡◌, ◌∷◌, codes, map, IfOk, OnOk};
ghost use Rattle.std.specs.List.{flat_map};
ghost use Rattle.pdw_lex.specs.declared.sign.Sign.TheVariants as s;
ghost use Rattle.pdw_ast.specs.Prints.{MeansAlone};
ghost use Rattle.pdw_syntax.specs.Texts.{IsWritten};
ghost use Rattle.pdw_ast.specs.Puts.{puts};
ghost use Rattle.pdw_ast.specs.Spelling as spec;
ghost use Rattle.pdw_ast.specs.Written.{sign, word};
ghost use Rattle.pdw_syntax.specs.declared.statement.Statement.TheVariants as is;

use crate::print::queries::print_query;
use crate::print::words::Words;
use crate::{CostPart, OrderKey, OrderName, Select, Statement};
use pdw_base::{Kind, NoMemory, Str};
use pdw_catalog::Column;
use pdw_lex::Keyword;
use std::alloc::Global;

fn kind_word(kind: Kind) -> &'static str
    ensures { result.now ≡ (spec.kind_word kind).bytes }
{
    match kind {
        Kind::Int => "INT",
        Kind::Text => "TEXT",
        Kind::Wide => "WIDE",
    }
}

fn cost_word(part: CostPart) -> &'static str
    ensures { result.now ≡ (spec.cost_word part).bytes }
{
    match part {
        CostPart::Reader => "READER",
        CostPart::HashReader => "HASHREADER",
        CostPart::Network => "NETWORK",
        CostPart::Writer => "WRITER",
        CostPart::Bulk => "BULK",
        CostPart::Control => "CONTROL",
    }
}

fn print_order_key(words: &mut Words, key: &OrderKey) -> Result<(), NoMemory>
    ensures { OnOk result (words.new ≡ puts words.old (spec.order_key key.now)) }
{
    match &key.name {
        OrderName::Name(name) => words.push(name.text())?,
        OrderName::Position(position) => words.push_number(*position)?,
    }
    if key.descending {
        words.push_key(Keyword::KwDesc)
    } else {
        words.push_key(Keyword::KwAsc)
    }
}

fn print_order_clause(words: &mut Words, order: &[OrderKey]) -> Result<(), NoMemory>
    ensures { OnOk result (words.new ≡ puts words.old (spec.order_clause order.now)) }
{
    if let Some((first, rest)) = order.split_first() {
        words.push_key(Keyword::KwOrder)?;
        words.push_key(Keyword::KwBy)?;
        print_order_key(words, first)?;
        for next in rest {
            words.push(",")?;
            print_order_key(words, next)?;
        }
    }
    Ok(())
}

fn print_select(words: &mut Words, select: &Select) -> Result<(), NoMemory>
    ensures { OnOk result (words.new ≡ puts words.old (spec.select select.now)) }
{
    print_query(words, &select.query)?;
    print_order_clause(words, select.order.as_slice())
}

fn print_column_definition(words: &mut Words, column: &Column) -> Result<(), NoMemory>
    ensures { OnOk result (words.new ≡ puts words.old (spec.column column.now)) }
{
    words.push(column.name.text())?;
    words.push(kind_word(column.kind))?;
    if !column.nullable {
        words.push_key(Keyword::KwNot)?;
        words.push_key(Keyword::KwNull)?;
    }
    Ok(())
}

// The columns with commas between them, in parentheses.
fn print_column_definitions(words: &mut Words, columns: &[Column]) -> Result<(), NoMemory>
    ensures { OnOk result (words.new ≡ puts words.old (spec.parenthesized (spec.comma_list (map spec.column columns.now)))) }
{
    words.push("(")?;
    if let Some((first, rest)) = columns.split_first() {
        print_column_definition(words, first)?;
        for next in rest {
            words.push(",")?;
            print_column_definition(words, next)?;
        }
    }
    words.push(")")
}

fn print_placing(words: &mut Words, hash: &Option<Str>) -> Result<(), NoMemory>
    ensures { OnOk result (words.new ≡ puts words.old (spec.placing hash.now)) }
{
    match hash {
        Some(column) => {
            words.push("HASH")?;
            words.push("(")?;
            words.push(column.text())?;
            words.push(")")
        }
        None => words.push("REPLICATE"),
    }
}

// How the rows are placed, in parentheses.
fn print_distribution(words: &mut Words, hash: &Option<Str>) -> Result<(), NoMemory>
    ensures { OnOk result (words.new ≡ puts words.old (spec.parenthesized (word (codes "distribution") ∷ sign s.Equal ∷ spec.placing hash.now))) }
{
    words.push("(")?;
    words.push("DISTRIBUTION")?;
    words.push("=")?;
    print_placing(words, hash)?;
    words.push(")")
}

// CREATE TABLE
fn print_create(
    words: &mut Words,
    table: &Str,
    columns: &[Column],
    hash: &Option<Str>,
) -> Result<(), NoMemory>
    ensures { OnOk result (words.new ≡ puts words.old (spec.statement (is.CreateNamed table.now columns.now hash.now))) }
{
    words.push_key(Keyword::KwCreate)?;
    words.push_key(Keyword::KwTable)?;
    words.push(table.text())?;
    print_column_definitions(words, columns)?;
    words.push_key(Keyword::KwWith)?;
    print_distribution(words, hash)
}

fn print_column_statistics(words: &mut Words, column: &(Str, i64, i64)) -> Result<(), NoMemory>
    ensures { OnOk result (words.new ≡ puts words.old (spec.column_statistics column.now)) }
{
    words.push(column.0.text())?;
    words.push_key(Keyword::KwDistinct)?;
    words.push_number(column.1)?;
    words.push("WIDTH")?;
    words.push_number(column.2)
}

// UPDATE STATISTICS with the numbers.
fn print_hand(
    words: &mut Words,
    table: &Str,
    rows: i64,
    columns: &[(Str, i64, i64)],
) -> Result<(), NoMemory>
    ensures { OnOk result (words.new ≡ puts words.old (spec.statement (is.Hand table.now rows columns.now))) }
{
    words.push_key(Keyword::KwUpdate)?;
    words.push("STATISTICS")?;
    words.push(table.text())?;
    words.push_key(Keyword::KwWith)?;
    words.push("ROWS")?;
    words.push_number(rows)?;
    for column in columns {
        words.push(",")?;
        print_column_statistics(words, column)?;
    }
    Ok(())
}

// DROP TABLE
fn print_drop(words: &mut Words, table: &Str) -> Result<(), NoMemory>
    ensures { OnOk result (words.new ≡ puts words.old (spec.statement (is.Drop table.now))) }
{
    words.push_key(Keyword::KwDrop)?;
    words.push_key(Keyword::KwTable)?;
    words.push(table.text())
}

fn print_load(words: &mut Words, table: &Str, file: &Str) -> Result<(), NoMemory>
    ensures { OnOk result (words.new ≡ puts words.old (spec.statement (is.Load table.now file.now))) }
{
    words.push("LOAD")?;
    words.push(table.text())?;
    words.push_key(Keyword::KwFrom)?;
    words.push_text(file)
}

// SET COST
fn print_cost(words: &mut Words, part: CostPart, amount: i64) -> Result<(), NoMemory>
    ensures { OnOk result (words.new ≡ puts words.old (spec.statement (is.Cost part amount))) }
{
    words.push_key(Keyword::KwSet)?;
    words.push("COST")?;
    words.push(cost_word(part))?;
    words.push_number(amount)
}

// EXPLAIN JSON
fn print_explain_json(words: &mut Words, select: &Select) -> Result<(), NoMemory>
    ensures { OnOk result (words.new ≡ puts words.old (spec.statement (is.ExplainJson select.now))) }
{
    words.push("EXPLAIN")?;
    words.push("JSON")?;
    print_select(words, select)
}

// CHECK PLAN
fn print_check_plan(words: &mut Words, file: &Str, select: &Select) -> Result<(), NoMemory>
    ensures { OnOk result (words.new ≡ puts words.old (spec.statement (is.CheckPlan file.now select.now))) }
{
    words.push("CHECK")?;
    words.push("PLAN")?;
    words.push_text(file)?;
    words.push("FOR")?;
    print_select(words, select)
}

fn print(words: &mut Words, statement: &Statement) -> Result<(), NoMemory>
    ensures { OnOk result (words.new ≡ puts words.old (spec.statement statement.now)) }
{
    match statement {
        Statement::CreateNamed {
            table,
            columns,
            hash,
        } => print_create(words, table, columns.as_slice(), hash),
        Statement::Drop(table) => print_drop(words, table),
        Statement::Load { table, file } => print_load(words, table, file),
        Statement::Measure(table) => {
            words.push_key(Keyword::KwUpdate)?;
            words.push("STATISTICS")?;
            words.push(table.text())
        }
        Statement::Hand { table, rows, cols } => print_hand(words, table, *rows, cols.as_slice()),
        Statement::Budget(amount) => {
            words.push_key(Keyword::KwSet)?;
            words.push("BUDGET")?;
            words.push_number(*amount)
        }
        Statement::Cost { part, amount } => print_cost(words, *part, *amount),
        Statement::Select(select) => print_select(words, select),
        Statement::Explain(select) => {
            words.push("EXPLAIN")?;
            print_select(words, select)
        }
        Statement::ExplainJson(select) => print_explain_json(words, select),
        Statement::Profile(select) => {
            words.push("PROFILE")?;
            print_select(words, select)
        }
        Statement::CheckPlan { file, select } => print_check_plan(words, file, select),
    }
}

/// The canonical spelling of a statement: its tokens with one space between each two. Where some text means the statement,
/// the spelling and ` ;` after it are a script of this statement alone.
pub fn print_statement(alloc: Global, statement: &Statement) -> Result<Vec<u8>, NoMemory>
    ensures spelled { IfOk result (λ bytes. bytes.items ≡ spec.canonical statement.now) }
    ensures means { IsWritten statement.now → IfOk result (λ bytes. MeansAlone bytes.items statement.now) }
{
    let mut words = Words::new(alloc);
    print(&mut words, statement)?;
    Ok(words.into_bytes())
}
