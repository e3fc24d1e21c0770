//! Why a script or a statement is refused, and the lines that say so.

ghost use Rattle.std.specs.Prelude.{◌≡◌, is_some, IfOk, OnOk, Some};
ghost use Rattle.std.specs.String.{string_bytes};
ghost use Rattle.pdw_show.specs.Code as spec;
ghost use Rattle.pdw_show.specs.Refusal.{fault_line, fault_text, judged_line, lex_line, limit_line, long_file_line, long_script_line, named_line, not_built_line, parse_line, place_line, setting_line, word_line};
ghost use Rattle.pdw_show.specs.Refusal as lines;
ghost use Rattle.pdw_show.specs.RefusalLine as refused;

use pdw_answer::Refusal;
use pdw_base::{MOST_FILE_BYTES, MOST_SCRIPT_BYTES, NoMemory};
use pdw_lex::LexError;
use pdw_load::LoadError;
use pdw_reading::ParseError;
use pdw_walk::{JudgeFault, LimitName};
use std::alloc::Global;

/// Why a script is refused, or one of its statements.
#[derive(Drop)]
pub enum Code {
    /// The script has no tokens.
    Lex(LexError),
    /// Its tokens are no statements.
    Parse(ParseError),
    /// The statement is refused.
    Engine(Refusal),
    /// The script has too many bytes.
    Script,
    /// The statement's file has too many bytes.
    File,
}

// ---- scripts

// The line that refuses a script of too many bytes.
fn long_script(alloc: Global) -> Result<String, NoMemory>
    ensures { IfOk result (λ line. string_bytes line ≡ long_script_line) }
{
    Ok(format!(in alloc; "REFUSED E16 LIMIT script {MOST_SCRIPT_BYTES}\n")?)
}

fn place(alloc: Global, name: &str, at: u32) -> Result<String, NoMemory>
    ensures { IfOk result (λ line. string_bytes line ≡ place_line name.now at) }
{
    Ok(format!(in alloc; "REFUSED {name} AT {at}\n")?)
}

// The line that refuses a script which is no tokens.
fn no_tokens(alloc: Global, error: LexError) -> Result<String, NoMemory>
    ensures { IfOk result (λ line. lex_line error ≡ Some (string_bytes line)) }
{
    match error {
        LexError::NotUtf8 { at } => place(alloc, "E1 NOTUTF8", at),
        LexError::BadChar { at } => place(alloc, "E2 BADCHAR", at),
        LexError::OpenText { at } => place(alloc, "E3 OPENTEXT", at),
        LexError::BigNumber { at } => place(alloc, "E4 BIGNUMBER", at),
        LexError::LongText { at } => place(alloc, "E5 LONGTEXT", at),
        LexError::Memory => Err(NoMemory),
    }
}

// The line that refuses a script whose tokens are no statements.
fn no_statements(alloc: Global, error: ParseError) -> Result<String, NoMemory>
    ensures { IfOk result (λ line. parse_line error ≡ Some (string_bytes line)) }
{
    match error {
        ParseError::Syntax { at } => place(alloc, "E6 SYNTAX", at),
        ParseError::TooDeep { at } => place(alloc, "E7 TOODEEP", at),
        ParseError::Memory => Err(NoMemory),
    }
}

// ---- statements

fn fault(alloc: Global, found: LoadError) -> Result<String, NoMemory>
    ensures text { IfOk result (λ text. string_bytes text ≡ fault_text found) }
    ensures named { OnOk result (refused.IsRecordFault found) }
{
    Ok(match found {
        LoadError::FieldCount { rec } => format!(in alloc; "FIELDCOUNT {rec}")?,
        LoadError::BadInt { rec, field } => format!(in alloc; "BADINT {rec} {field}")?,
        LoadError::LongText { rec, field } => format!(in alloc; "LONGTEXT {rec} {field}")?,
        LoadError::NullField { rec, field } => format!(in alloc; "NULLFIELD {rec} {field}")?,
        LoadError::NotUtf8 { rec, field } => format!(in alloc; "NOTUTF8 {rec} {field}")?,
        LoadError::Memory => return Err(NoMemory),
    })
}

fn limit(alloc: Global, k: u32, name: &str, most: u64) -> Result<String, NoMemory>
    ensures { IfOk result (λ line. string_bytes line ≡ limit_line k name.now most) }
{
    Ok(format!(in alloc; "REFUSED E16 STATEMENT {k} LIMIT {name} {most}\n")?)
}

fn named(alloc: Global, code: &str, k: u32, word: &str, name: &str) -> Result<String, NoMemory>
    ensures { IfOk result (λ line. string_bytes line ≡ named_line code.now k word.now name.now) }
{
    Ok(format!(in alloc; "REFUSED {code} STATEMENT {k} {word} {name}\n")?)
}

fn worded(alloc: Global, code: &str, k: u32, word: &str) -> Result<String, NoMemory>
    ensures { IfOk result (λ line. string_bytes line ≡ word_line code.now k word.now) }
{
    Ok(format!(in alloc; "REFUSED {code} STATEMENT {k} {word}\n")?)
}

fn setting(alloc: Global, k: u32, name: &str, amount: i64) -> Result<String, NoMemory>
    ensures { IfOk result (λ line. string_bytes line ≡ setting_line k name.now amount) }
{
    Ok(format!(in alloc; "REFUSED E18 STATEMENT {k} BADSETTING {name} {amount}\n")?)
}

fn not_built(alloc: Global, k: u32) -> Result<String, NoMemory>
    ensures { IfOk result (λ line. string_bytes line ≡ not_built_line k) }
{
    Ok(format!(in alloc; "REFUSED E19 STATEMENT {k} NOTBUILT\n")?)
}

fn record(alloc: Global, k: u32, found: LoadError) -> Result<String, NoMemory>
    ensures line { IfOk result (λ line. string_bytes line ≡ fault_line k found) }
    ensures named { OnOk result (refused.IsRecordFault found) }
{
    let text = fault(alloc, found)?;
    Ok(format!(in alloc; "REFUSED E17 STATEMENT {k} {text}\n")?)
}

// The line that refuses statement k, whose file is too long.
fn long_file(alloc: Global, k: u32) -> Result<String, NoMemory>
    ensures { IfOk result (λ line. string_bytes line ≡ long_file_line k) }
{
    limit(alloc, k, "file", MOST_FILE_BYTES as u64)
}

fn limit_name(which: LimitName) -> &'static str
    ensures { result.now ≡ lines.limit_name which }
{
    match which {
        LimitName::Script => "script",
        LimitName::File => "file",
        LimitName::Tables => "tables",
        LimitName::Columns => "columns",
        LimitName::Rows => "rows",
        LimitName::References => "references",
        LimitName::Used => "used",
        LimitName::Items => "items",
        LimitName::Queries => "queries",
    }
}

// The line of a fault of the judgement.
fn judged(alloc: Global, k: u32, found: &JudgeFault) -> Result<String, NoMemory>
    ensures line { IfOk result (λ line. string_bytes line ≡ judged_line k found.now) }
    ensures named { OnOk result (refused.IsJudgement found.now) }
{
    match found {
        JudgeFault::TableExists(table) => named(alloc, "E8", k, "TABLEEXISTS", table.text()),
        JudgeFault::UnknownTable(table) => named(alloc, "E9", k, "UNKNOWNTABLE", table.text()),
        JudgeFault::DuplicateName(name) => named(alloc, "E10", k, "DUPLICATENAME", name.text()),
        JudgeFault::UnknownColumn(name) => named(alloc, "E11", k, "UNKNOWNCOLUMN", name.text()),
        JudgeFault::Ambiguous(name) => named(alloc, "E12", k, "AMBIGUOUS", name.text()),
        JudgeFault::TypeMismatch => worded(alloc, "E13", k, "TYPEMISMATCH"),
        JudgeFault::NotGrouped(name) => named(alloc, "E14", k, "NOTGROUPED", name.text()),
        JudgeFault::AggregatePlace => worded(alloc, "E14", k, "AGGREGATEPLACE"),
        JudgeFault::SubqueryPlace => worded(alloc, "E15", k, "SUBQUERYPLACE"),
        JudgeFault::OuterReference(name) => named(alloc, "E15", k, "OUTERREFERENCE", name.text()),
        JudgeFault::Limit { which, most } => limit(alloc, k, limit_name(*which), *most),
        JudgeFault::BadSetting { name, amount } => setting(alloc, k, name.text(), *amount),
        JudgeFault::Memory => Err(NoMemory),
    }
}

// The line that refuses statement k.
fn refusal_line(alloc: Global, k: u32, refusal: &Refusal) -> Result<String, NoMemory>
    ensures line { IfOk result (λ line. string_bytes line ≡ refused.refusal_line k refusal.now) }
    ensures named { OnOk result (refused.IsRefusal refusal.now) }
{
    match refusal {
        Refusal::Judge(found) => judged(alloc, k, found),
        Refusal::Load(found) => record(alloc, k, *found),
        Refusal::Rows { most } => limit(alloc, k, "rows", *most),
        Refusal::NotBuilt => not_built(alloc, k),
    }
}

// ---- both

// The line of a code.
fn code_line(alloc: Global, statement: Option<u32>, code: &Code) -> Result<String, NoMemory>
    requires { is_some statement ≡ spec.has_statement code.now }
    ensures line { IfOk result (λ line. spec.shown_refusal statement code.now ≡ Some (string_bytes line)) }
    ensures named { OnOk result (spec.IsNamed code.now) }
{
    match code {
        Code::Lex(error) => no_tokens(alloc, *error),
        Code::Parse(error) => no_statements(alloc, *error),
        Code::Engine(refusal) => refusal_line(alloc, statement.unwrap(), refusal),
        Code::Script => long_script(alloc),
        Code::File => long_file(alloc, statement.unwrap()),
    }
}

/// The line of a refusal: of this statement, counted from 1, where the code is of one, and else of the script. A code that is a
/// want of memory has no line, and is answered as one.
pub fn show_refusal(alloc: Global, statement: Option<u32>, code: &Code) -> Result<Vec<u8>, NoMemory>
    requires { is_some statement ≡ spec.has_statement code.now }
    ensures line { IfOk result (λ line. spec.shown_refusal statement code.now ≡ Some line.items) }
    ensures named { OnOk result (spec.IsNamed code.now) }
{
    let line = code_line(alloc, statement, code)?;
    Ok(line.into_bytes())
}
