//! Statements and scripts.

ghost use Rattle.std.specs.Prelude.{codes};
ghost use Rattle.pdw_syntax.specs.Lexemes.{is_word, name_of};
ghost use Rattle.pdw_syntax.specs.declared.statement.Statement.TheVariants.{CheckPlan};
ghost use Rattle.pdw_reading.specs.Levels.{nested};
ghost use Rattle.pdw_reading.specs.ReadExprs.{after_comma};
ghost use Rattle.pdw_reading.specs.ReadQueries.{select as select_spec};
ghost use Rattle.pdw_reading.specs.ReadStatements as spec;
ghost use Rattle.pdw_reading.specs.Reading.{Reads, and_then, enclosed as enclosed_spec, many as many_spec, pure, take};
ghost use Rattle.pdw_reading.specs.declared.limit.TheConstants.{MOST_OPEN};

use crate::parentheses::enclosed;
use pdw_base::Str;
use pdw_catalog::Column;
use pdw_lex::{Keyword, Lexeme, Sign};
use pdw_queries::Queries;
use pdw_reading::{MOST_OPEN, Stop};
use pdw_syntax::{Select, Statement};
use pdw_terms::Grammar;
use pdw_tokens::{Tokens, cost_part_of, first_and_rest, kind_of, many};
use sqlite_items::Items as ListOf;
use std::alloc::Global;
use std::mem::drop;

// Whether a column may hold NULL.
#[tactic(auto, unfolding(pdw_reading::specs::ReadStatements::nullable))]
fn nullable(tokens: &mut Tokens<'_>) -> Result<bool, Stop>
    ensures { Reads (spec.nullable tokens.old) result tokens.new }
{
    if !tokens.eat_key(Keyword::KwNot) {
        return Ok(true);
    }
    tokens.take_key(Keyword::KwNull)?;
    Ok(false)
}

#[tactic(auto, unfolding(pdw_reading::specs::ReadStatements::column, pdw_reading::specs::Reading::take))]
fn column(alloc: Global, tokens: &mut Tokens<'_>) -> Result<Column, Stop>
    ensures { Reads (spec.column tokens.old) result tokens.new }
{
    let name = tokens.take_name(alloc)?;
    let kind = tokens.taken(kind_of(tokens.peek()))?;
    let nullable = nullable(tokens)?;
    Ok(Column {
        name,
        kind,
        nullable,
    })
}

// The column after a comma, if one comes next.
#[tactic(auto, unfolding(pdw_reading::specs::Reading::eat))]
fn column_after_comma(alloc: Global, tokens: &mut Tokens<'_>) -> Result<Option<Column>, Stop>
    ensures { Reads (after_comma spec.column tokens.old) result tokens.new }
{
    if tokens.eat_sign(Sign::Comma) {
        Ok(Some(column(alloc, tokens)?))
    } else {
        Ok(None)
    }
}

fn columns_after_commas(alloc: Global, tokens: &mut Tokens<'_>) -> Result<ListOf<Column>, Stop>
    ensures { Reads (many_spec (after_comma spec.column) tokens.old) result tokens.new }
{
    many(
        alloc,
        tokens,
        |tokens: &mut Tokens<'_>| column_after_comma(alloc, tokens),
    )
}

// The columns of a table in their parentheses.
#[tactic(auto, unfolding(pdw_reading::specs::ReadStatements::columns, pdw_reading::specs::ReadExprs::listed))]
fn columns(alloc: Global, tokens: &mut Tokens<'_>) -> Result<ListOf<Column>, Stop>
    ensures { Reads (spec.columns tokens.old) result tokens.new }
{
    tokens.take_sign(Sign::ParenOpen)?;
    let first = column(alloc, tokens)?;
    let rest = columns_after_commas(alloc, tokens)?;
    tokens.take_sign(Sign::ParenClose)?;
    Ok(first_and_rest(alloc, first, rest)?)
}

// `( name )`
fn enclosed_name(alloc: Global, tokens: &mut Tokens<'_>) -> Result<Str, Stop>
    ensures { Reads (enclosed_spec (take name_of) tokens.old) result tokens.new }
{
    tokens.take_sign(Sign::ParenOpen)?;
    let name = tokens.take_name(alloc)?;
    tokens.take_sign(Sign::ParenClose)?;
    Ok(name)
}

// The column by which a table is distributed, or None where it is replicated.
#[tactic(auto, unfolding(pdw_reading::specs::ReadStatements::placing))]
fn placing(alloc: Global, tokens: &mut Tokens<'_>) -> Result<Option<Str>, Stop>
    ensures { Reads (spec.placing tokens.old) result tokens.new }
{
    if tokens.eat_word("hash") {
        return Ok(Some(enclosed_name(alloc, tokens)?));
    }
    tokens.take_word("replicate")?;
    Ok(None)
}

#[tactic(auto, unfolding(pdw_reading::specs::ReadStatements::distribution))]
fn distribution(alloc: Global, tokens: &mut Tokens<'_>) -> Result<Option<Str>, Stop>
    ensures { Reads (spec.distribution tokens.old) result tokens.new }
{
    tokens.take_word("distribution")?;
    tokens.take_sign(Sign::Equal)?;
    placing(alloc, tokens)
}

// `( DISTRIBUTION = placing )`
fn enclosed_distribution(alloc: Global, tokens: &mut Tokens<'_>) -> Result<Option<Str>, Stop>
    ensures { Reads (enclosed_spec spec.distribution tokens.old) result tokens.new }
{
    tokens.take_sign(Sign::ParenOpen)?;
    let hash = distribution(alloc, tokens)?;
    tokens.take_sign(Sign::ParenClose)?;
    Ok(hash)
}

// CREATE TABLE from the word WITH on.
#[tactic(auto, unfolding(pdw_reading::specs::ReadStatements::create_with))]
fn create_with(
    alloc: Global,
    tokens: &mut Tokens<'_>,
    table: Str,
    columns: ListOf<Column>,
) -> Result<Statement, Stop>
    ensures { Reads (spec.create_with table columns tokens.old) result tokens.new }
{
    tokens.take_key(Keyword::KwWith)?;
    let hash = enclosed_distribution(alloc, tokens)?;
    Ok(Statement::CreateNamed {
        table,
        columns,
        hash,
    })
}

#[tactic(auto, unfolding(pdw_reading::specs::ReadStatements::create))]
fn create(alloc: Global, tokens: &mut Tokens<'_>) -> Result<Statement, Stop>
    ensures { Reads (spec.create tokens.old) result tokens.new }
{
    tokens.take_key(Keyword::KwCreate)?;
    tokens.take_key(Keyword::KwTable)?;
    let table = tokens.take_name(alloc)?;
    let columns = columns(alloc, tokens)?;
    create_with(alloc, tokens, table, columns)
}

#[tactic(auto, unfolding(pdw_reading::specs::ReadStatements::drop_table))]
fn drop_table(alloc: Global, tokens: &mut Tokens<'_>) -> Result<Statement, Stop>
    ensures { Reads (spec.drop_table tokens.old) result tokens.new }
{
    tokens.take_key(Keyword::KwDrop)?;
    tokens.take_key(Keyword::KwTable)?;
    Ok(Statement::Drop(tokens.take_name(alloc)?))
}

#[tactic(auto, unfolding(pdw_reading::specs::ReadStatements::load))]
fn load(alloc: Global, tokens: &mut Tokens<'_>) -> Result<Statement, Stop>
    ensures { Reads (spec.load tokens.old) result tokens.new }
{
    tokens.take_word("load")?;
    let table = tokens.take_name(alloc)?;
    tokens.take_key(Keyword::KwFrom)?;
    let file = tokens.take_text(alloc)?;
    Ok(Statement::Load { table, file })
}

// What is said of a column.
#[tactic(auto, unfolding(pdw_reading::specs::ReadStatements::column_statistics))]
fn column_statistics(alloc: Global, tokens: &mut Tokens<'_>) -> Result<(Str, i64, i64), Stop>
    ensures { Reads (spec.column_statistics tokens.old) result tokens.new }
{
    let column = tokens.take_name(alloc)?;
    tokens.take_key(Keyword::KwDistinct)?;
    let distinct = tokens.take_number()?;
    tokens.take_word("width")?;
    let width = tokens.take_number()?;
    Ok((column, distinct, width))
}

#[tactic(auto, unfolding(pdw_reading::specs::Reading::eat))]
fn statistics_after_comma(
    alloc: Global,
    tokens: &mut Tokens<'_>,
) -> Result<Option<(Str, i64, i64)>, Stop>
    ensures { Reads (after_comma spec.column_statistics tokens.old) result tokens.new }
{
    if tokens.eat_sign(Sign::Comma) {
        Ok(Some(column_statistics(alloc, tokens)?))
    } else {
        Ok(None)
    }
}

fn statistics_after_commas(
    alloc: Global,
    tokens: &mut Tokens<'_>,
) -> Result<ListOf<(Str, i64, i64)>, Stop>
    ensures { Reads (many_spec (after_comma spec.column_statistics) tokens.old) result tokens.new }
{
    many(
        alloc,
        tokens,
        |tokens: &mut Tokens<'_>| statistics_after_comma(alloc, tokens),
    )
}

// What is said of a table after WITH.
#[tactic(auto, unfolding(pdw_reading::specs::ReadStatements::handed_statistics))]
fn handed_statistics(
    alloc: Global,
    tokens: &mut Tokens<'_>,
) -> Result<(i64, ListOf<(Str, i64, i64)>), Stop>
    ensures { Reads (spec.handed_statistics tokens.old) result tokens.new }
{
    tokens.take_word("rows")?;
    let rows = tokens.take_number()?;
    let columns = statistics_after_commas(alloc, tokens)?;
    Ok((rows, columns))
}

// Statistics of this table, which are handed over where WITH comes next.
#[tactic(auto, unfolding(pdw_reading::specs::Reading::eat))]
fn statistics_of(alloc: Global, tokens: &mut Tokens<'_>, table: Str) -> Result<Statement, Stop>
    ensures { Reads (spec.statistics_from table tokens.old) result tokens.new }
{
    if !tokens.eat_key(Keyword::KwWith) {
        return Ok(Statement::Measure(table));
    }
    let (rows, cols) = handed_statistics(alloc, tokens)?;
    Ok(Statement::Hand { table, rows, cols })
}

#[tactic(auto, unfolding(pdw_reading::specs::ReadStatements::statistics))]
fn statistics(alloc: Global, tokens: &mut Tokens<'_>) -> Result<Statement, Stop>
    ensures { Reads (spec.statistics tokens.old) result tokens.new }
{
    tokens.take_key(Keyword::KwUpdate)?;
    tokens.take_word("statistics")?;
    let table = tokens.take_name(alloc)?;
    statistics_of(alloc, tokens, table)
}

// A constant of the cost.
#[tactic(auto, unfolding(pdw_reading::specs::Reading::take))]
fn cost(tokens: &mut Tokens<'_>) -> Result<Statement, Stop>
    ensures { Reads (spec.cost_of tokens.old) result tokens.new }
{
    tokens.take_word("cost")?;
    let part = tokens.taken(cost_part_of(tokens.peek()))?;
    let amount = tokens.take_number()?;
    Ok(Statement::Cost { part, amount })
}

#[tactic(auto, unfolding(pdw_reading::specs::ReadStatements::setting))]
fn setting(tokens: &mut Tokens<'_>) -> Result<Statement, Stop>
    ensures { Reads (spec.setting tokens.old) result tokens.new }
{
    tokens.take_key(Keyword::KwSet)?;
    if tokens.eat_word("budget") {
        Ok(Statement::Budget(tokens.take_number()?))
    } else {
        cost(tokens)
    }
}

// SELECT, where no parenthesis is open.
fn select(alloc: Global, tokens: &mut Tokens<'_>) -> Result<Select, Stop>
    ensures { Reads (select_spec (nested MOST_OPEN) tokens.old) result tokens.new }
{
    let rules = Queries {
        grammar: Grammar {
            alloc,
            depth: MOST_OPEN,
            nested: enclosed,
        },
    };
    rules.select(tokens)
}

#[tactic(auto, unfolding(pdw_reading::specs::ReadStatements::explain))]
fn explain(alloc: Global, tokens: &mut Tokens<'_>) -> Result<Statement, Stop>
    ensures { Reads (spec.explain (nested MOST_OPEN) tokens.old) result tokens.new }
{
    tokens.take_word("explain")?;
    if tokens.eat_word("json") {
        Ok(Statement::ExplainJson(select(alloc, tokens)?))
    } else {
        Ok(Statement::Explain(select(alloc, tokens)?))
    }
}

#[tactic(auto, unfolding(pdw_reading::specs::ReadStatements::profile))]
fn profile(alloc: Global, tokens: &mut Tokens<'_>) -> Result<Statement, Stop>
    ensures { Reads (spec.profile (nested MOST_OPEN) tokens.old) result tokens.new }
{
    tokens.take_word("profile")?;
    Ok(Statement::Profile(select(alloc, tokens)?))
}

// CHECK PLAN of this file from the word FOR on.
fn check_plan_for(alloc: Global, tokens: &mut Tokens<'_>, file: Str) -> Result<Statement, Stop>
    ensures { Reads (and_then (take (is_word (codes "for")) tokens.old) (λ _ rest. and_then (select_spec (nested MOST_OPEN) rest) (λ select. pure (CheckPlan file select)))) result tokens.new }
{
    tokens.take_word("for")?;
    let select = select(alloc, tokens)?;
    Ok(Statement::CheckPlan { file, select })
}

#[tactic(auto, unfolding(pdw_reading::specs::ReadStatements::check_plan))]
fn check_plan(alloc: Global, tokens: &mut Tokens<'_>) -> Result<Statement, Stop>
    ensures { Reads (spec.check_plan (nested MOST_OPEN) tokens.old) result tokens.new }
{
    tokens.take_word("check")?;
    tokens.take_word("plan")?;
    let file = tokens.take_text(alloc)?;
    check_plan_for(alloc, tokens, file)
}

// A statement that begins with this word, which is still to be taken.
#[tactic(auto, unfolding(pdw_reading::specs::ReadStatements::worded))]
fn worded(alloc: Global, tokens: &mut Tokens<'_>, word: &str) -> Result<Statement, Stop>
    ensures { Reads (spec.worded (nested MOST_OPEN) word.now tokens.old) result tokens.new }
{
    match word {
        "load" => load(alloc, tokens),
        "explain" => explain(alloc, tokens),
        "profile" => profile(alloc, tokens),
        "check" => check_plan(alloc, tokens),
        _ => Err(Stop::Syntax),
    }
}

#[tactic(auto, unfolding(pdw_reading::specs::ReadStatements::statement))]
fn statement(alloc: Global, tokens: &mut Tokens<'_>) -> Result<Statement, Stop>
    ensures { Reads (spec.statement (nested MOST_OPEN) tokens.old) result tokens.new }
{
    match tokens.peek() {
        Some(Lexeme::Key(Keyword::KwCreate)) => create(alloc, tokens),
        Some(Lexeme::Key(Keyword::KwDrop)) => drop_table(alloc, tokens),
        Some(Lexeme::Key(Keyword::KwUpdate)) => statistics(alloc, tokens),
        Some(Lexeme::Key(Keyword::KwSet)) => setting(tokens),
        Some(Lexeme::Key(Keyword::KwSelect)) => Ok(Statement::Select(select(alloc, tokens)?)),
        Some(Lexeme::Name(word)) => worded(alloc, tokens, word.text()),
        _ => Err(Stop::Syntax),
    }
}

// The next statement with its semicolon, if the script goes on.
#[tactic(auto, unfolding(pdw_reading::specs::ReadStatements::next_statement))]
fn next_statement(alloc: Global, tokens: &mut Tokens<'_>) -> Result<Option<Statement>, Stop>
    ensures { Reads (spec.next_statement (nested MOST_OPEN) tokens.old) result tokens.new }
{
    if tokens.peek().is_none() {
        return Ok(None);
    }
    let statement = statement(alloc, tokens)?;
    match tokens.take_sign(Sign::Semicolon) {
        Ok(()) => Ok(Some(statement)),
        Err(stop) => {
            drop(statement);
            Err(stop)
        }
    }
}

/// All statements of a script.
#[tactic(auto, unfolding(pdw_reading::specs::ReadStatements::script))]
pub fn script(alloc: Global, tokens: &mut Tokens<'_>) -> Result<ListOf<Statement>, Stop>
    ensures { Reads (spec.script (nested MOST_OPEN) tokens.old) result tokens.new }
{
    many(
        alloc,
        tokens,
        |tokens: &mut Tokens<'_>| next_statement(alloc, tokens),
    )
}
