//! Why a script or a statement is refused, and the lines that say so.

ghost use Rattle.std.specs.Prelude.{◌≡◌, Some, IfOk};
ghost use Rattle.std.specs.String.{string_bytes};
ghost use Rattle.pdw_run.specs.Refusal.{fault_line, fault_text, judged_line, lex_line, limit_line, long_file_line, long_script_line, named_line, not_built_line, parse_line, place_line, setting_line, word_line};
ghost use Rattle.pdw_run.specs.Refusal as lines;
ghost use Rattle.pdw_run.specs.RefusalLine as spec;

use pdw_base::{MOST_FILE_BYTES, MOST_SCRIPT_BYTES, NoMemory};
use pdw_engine::Refusal;
use pdw_lex::LexError;
use pdw_load::LoadError;
use pdw_parse::ParseError;
use pdw_walk::{JudgeFault, LimitName};
use std::alloc::Global;

/// The line that refuses a script of too many bytes.
pub fn long_script(alloc: Global) -> Result<String, NoMemory>
    ensures { IfOk result (λ line. string_bytes line ≡ long_script_line) }
{
    Ok(format!(in alloc; "REFUSED E16 LIMIT script {MOST_SCRIPT_BYTES}\n")?)
}

fn place(alloc: Global, name: &str, at: u32) -> Result<String, NoMemory>
    ensures { IfOk result (λ line. string_bytes line ≡ place_line name.now at) }
{
    Ok(format!(in alloc; "REFUSED {name} AT {at}\n")?)
}

/// The line that refuses a script which is no tokens.
pub fn no_tokens(alloc: Global, error: LexError) -> Result<String, NoMemory>
    ensures { IfOk result (λ line. lex_line error ≡ Some (string_bytes line)) }
{
    match error {
        LexError::NotUtf8 { at } => place(alloc, "E1 NOTUTF8", at),
        LexError::BadChar { at } => place(alloc, "E2 BADCHAR", at),
        LexError::OpenText { at } => place(alloc, "E3 OPENTEXT", at),
        LexError::BigNumber { at } => place(alloc, "E4 BIGNUMBER", at),
        LexError::LongText { at } => place(alloc, "E5 LONGTEXT", at),
        LexError::Memory => Err(NoMemory),
    }
}

/// The line that refuses a script whose tokens are no statements.
pub fn no_statements(alloc: Global, error: ParseError) -> Result<String, NoMemory>
    ensures { IfOk result (λ line. parse_line error ≡ Some (string_bytes line)) }
{
    match error {
        ParseError::Syntax { at } => place(alloc, "E6 SYNTAX", at),
        ParseError::TooDeep { at } => place(alloc, "E7 TOODEEP", at),
        ParseError::Memory => Err(NoMemory),
    }
}

fn fault(alloc: Global, found: LoadError) -> Result<String, NoMemory>
    ensures { IfOk result (λ text. string_bytes text ≡ fault_text found) }
{
    Ok(match found {
        LoadError::FieldCount { rec } => format!(in alloc; "FIELDCOUNT {rec}")?,
        LoadError::BadInt { rec, field } => format!(in alloc; "BADINT {rec} {field}")?,
        LoadError::LongText { rec, field } => format!(in alloc; "LONGTEXT {rec} {field}")?,
        LoadError::NullField { rec, field } => format!(in alloc; "NULLFIELD {rec} {field}")?,
        LoadError::NotUtf8 { rec, field } => format!(in alloc; "NOTUTF8 {rec} {field}")?,
        LoadError::Memory => return Err(NoMemory),
    })
}

fn limit(alloc: Global, k: usize, name: &str, most: u64) -> Result<String, NoMemory>
    ensures { IfOk result (λ line. string_bytes line ≡ limit_line k name.now most) }
{
    Ok(format!(in alloc; "REFUSED E16 STATEMENT {k} LIMIT {name} {most}\n")?)
}

fn named(alloc: Global, code: &str, k: usize, word: &str, name: &str) -> Result<String, NoMemory>
    ensures { IfOk result (λ line. string_bytes line ≡ named_line code.now k word.now name.now) }
{
    Ok(format!(in alloc; "REFUSED {code} STATEMENT {k} {word} {name}\n")?)
}

fn worded(alloc: Global, code: &str, k: usize, word: &str) -> Result<String, NoMemory>
    ensures { IfOk result (λ line. string_bytes line ≡ word_line code.now k word.now) }
{
    Ok(format!(in alloc; "REFUSED {code} STATEMENT {k} {word}\n")?)
}

fn setting(alloc: Global, k: usize, name: &str, amount: i64) -> Result<String, NoMemory>
    ensures { IfOk result (λ line. string_bytes line ≡ setting_line k name.now amount) }
{
    Ok(format!(in alloc; "REFUSED E18 STATEMENT {k} BADSETTING {name} {amount}\n")?)
}

fn not_built(alloc: Global, k: usize) -> Result<String, NoMemory>
    ensures { IfOk result (λ line. string_bytes line ≡ not_built_line k) }
{
    Ok(format!(in alloc; "REFUSED E19 STATEMENT {k} NOTBUILT\n")?)
}

fn record(alloc: Global, k: usize, found: LoadError) -> Result<String, NoMemory>
    ensures { IfOk result (λ line. string_bytes line ≡ fault_line k found) }
{
    let text = fault(alloc, found)?;
    Ok(format!(in alloc; "REFUSED E17 STATEMENT {k} {text}\n")?)
}

/// The line that refuses statement k, whose file is too long.
pub fn long_file(alloc: Global, k: usize) -> Result<String, NoMemory>
    ensures { IfOk result (λ line. string_bytes line ≡ long_file_line k) }
{
    limit(alloc, k, "file", MOST_FILE_BYTES as u64)
}

fn limit_name(which: LimitName) -> &'static str
    ensures { result.now ≡ lines.limit_name which }
{
    match which {
        LimitName::Script => "script",
        LimitName::File => "file",
        LimitName::Tables => "tables",
        LimitName::Columns => "columns",
        LimitName::Rows => "rows",
        LimitName::References => "references",
        LimitName::Used => "used",
        LimitName::Items => "items",
        LimitName::Queries => "queries",
    }
}

// The line of a fault of the judgement.
fn judged(alloc: Global, k: usize, found: &JudgeFault) -> Result<String, NoMemory>
    ensures { IfOk result (λ line. string_bytes line ≡ judged_line k found.now) }
{
    match found {
        JudgeFault::TableExists(table) => named(alloc, "E8", k, "TABLEEXISTS", table.text()),
        JudgeFault::UnknownTable(table) => named(alloc, "E9", k, "UNKNOWNTABLE", table.text()),
        JudgeFault::DuplicateName(name) => named(alloc, "E10", k, "DUPLICATENAME", name.text()),
        JudgeFault::UnknownColumn(name) => named(alloc, "E11", k, "UNKNOWNCOLUMN", name.text()),
        JudgeFault::Ambiguous(name) => named(alloc, "E12", k, "AMBIGUOUS", name.text()),
        JudgeFault::TypeMismatch => worded(alloc, "E13", k, "TYPEMISMATCH"),
        JudgeFault::NotGrouped(name) => named(alloc, "E14", k, "NOTGROUPED", name.text()),
        JudgeFault::AggregatePlace => worded(alloc, "E14", k, "AGGREGATEPLACE"),
        JudgeFault::SubqueryPlace => worded(alloc, "E15", k, "SUBQUERYPLACE"),
        JudgeFault::OuterReference(name) => named(alloc, "E15", k, "OUTERREFERENCE", name.text()),
        JudgeFault::Limit { which, most } => limit(alloc, k, limit_name(*which), *most),
        JudgeFault::BadSetting { name, amount } => setting(alloc, k, name.text(), *amount),
        JudgeFault::Memory => Err(NoMemory),
    }
}

/// The line that refuses statement k.
pub fn refusal_line(alloc: Global, k: usize, refusal: Refusal) -> Result<String, NoMemory>
    ensures { IfOk result (λ line. string_bytes line ≡ spec.refusal_line k refusal) }
{
    match refusal {
        Refusal::Judge(found) => judged(alloc, k, &found),
        Refusal::Load(found) => record(alloc, k, found),
        Refusal::Rows { most } => limit(alloc, k, "rows", most),
        Refusal::NotBuilt => not_built(alloc, k),
    }
}
