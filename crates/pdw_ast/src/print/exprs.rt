//! Columns and expressions.

ghost use Rattle.std.specs.Prelude.{◌≡◌, map, OnOk};
ghost use Rattle.std.specs.Option.{option_map};
ghost use Rattle.pdw_ast.specs.Puts.{puts};
ghost use Rattle.pdw_ast.specs.Spelling as spec;
ghost use Rattle.pdw_ast.specs.Written.{key};

use crate::print::words::Words;
use crate::{ColRef, SqlExpr};
use pdw_base::{NoMemory, Str};
use pdw_expr::{AggKind, Arith};
use pdw_lex::Keyword;
use sqlite_items::Boxed;

fn operator_sign(operator: Arith) -> &'static str
    ensures { result.now ≡ (spec.operator operator).bytes }
{
    match operator {
        Arith::Add => "+",
        Arith::Sub => "-",
        Arith::Mul => "*",
        Arith::Div => "/",
        Arith::Rem => "%",
    }
}

fn aggregate_word(kind: AggKind) -> Keyword
    ensures { key result ≡ spec.aggregate kind }
{
    match kind {
        AggKind::CountStar | AggKind::Count => Keyword::KwCount,
        AggKind::Sum => Keyword::KwSum,
        AggKind::Min => Keyword::KwMin,
        AggKind::Max => Keyword::KwMax,
    }
}

/// AS and the alias.
pub fn print_as(words: &mut Words, alias: &Str) -> Result<(), NoMemory>
    ensures { OnOk result (words.new ≡ puts words.old (spec.alias (Some alias.now))) }
{
    words.push_key(Keyword::KwAs)?;
    words.push(alias.text())
}

/// AS and the alias, if there is one.
pub fn print_alias(words: &mut Words, alias: &Option<Str>) -> Result<(), NoMemory>
    ensures { OnOk result (words.new ≡ puts words.old (spec.alias alias.now)) }
{
    match alias {
        Some(called) => print_as(words, called),
        None => Ok(()),
    }
}

/// A column, with the alias of its table where that is written.
pub fn print_column(words: &mut Words, column: &ColRef) -> Result<(), NoMemory>
    ensures { OnOk result (words.new ≡ puts words.old (spec.column_reference column.now)) }
{
    if let Some(alias) = &column.alias {
        words.push(alias.text())?;
        words.push(".")?;
    }
    words.push(column.column.text())
}

// The argument of an aggregate in parentheses, where there is none a star.
#[cycle(expr)]
fn print_argument(words: &mut Words, arg: &Option<Boxed<SqlExpr>>) -> Result<(), NoMemory>
    ensures { OnOk result (words.new ≡ puts words.old (spec.parenthesized (spec.argument (option_map spec.expr arg.now)))) }
{
    match arg {
        Some(value) => print_expr_in_parentheses(words, value.get()),
        None => {
            words.push("(")?;
            words.push("*")?;
            words.push(")")
        }
    }
}

#[cycle(expr)]
fn print_expr_in_parentheses(words: &mut Words, expr: &SqlExpr) -> Result<(), NoMemory>
    ensures { OnOk result (words.new ≡ puts words.old (spec.parenthesized (spec.expr expr.now))) }
{
    words.push("(")?;
    print_expr(words, expr)?;
    words.push(")")
}

/// An expression.
#[cycle(expr)]
pub fn print_expr(words: &mut Words, expr: &SqlExpr) -> Result<(), NoMemory>
    ensures { OnOk result (words.new ≡ puts words.old (spec.expr expr.now)) }
{
    match expr {
        SqlExpr::Col(column) => print_column(words, column),
        SqlExpr::Number(number) => words.push_number(*number),
        SqlExpr::Text(text) => words.push_text(text),
        SqlExpr::Signed { minus, value } => {
            words.push(if *minus { "-" } else { "+" })?;
            print_expr(words, value.get())
        }
        SqlExpr::Chain { first, rest } => {
            print_expr(words, first.get())?;
            for link in rest.as_slice() {
                words.push(operator_sign(link.0))?;
                print_expr(words, &link.1)?;
            }
            Ok(())
        }
        SqlExpr::Agg { kind, arg } => {
            words.push_key(aggregate_word(*kind))?;
            print_argument(words, arg)
        }
        SqlExpr::Paren(inner) => print_expr_in_parentheses(words, inner.get()),
    }
}

/// The expressions with commas between them.
pub fn print_exprs(words: &mut Words, exprs: &[SqlExpr]) -> Result<(), NoMemory>
    ensures { OnOk result (words.new ≡ puts words.old (spec.comma_list (map spec.expr exprs.now))) }
{
    if let Some((first, rest)) = exprs.split_first() {
        print_expr(words, first)?;
        for next in rest {
            words.push(",")?;
            print_expr(words, next)?;
        }
    }
    Ok(())
}
