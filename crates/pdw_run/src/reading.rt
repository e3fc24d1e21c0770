//! The statements of a script, which is read whole before the first of them is executed.

ghost use Rattle.std.specs.Prelude.{◌≡◌, ◌≤◌, true, Some, IfOk, IfErr, length};
ghost use Rattle.std.specs.List.{list_all};
ghost use Rattle.std.specs.String.{string_bytes};
ghost use Rattle.pdw_syntax.specs.Written.{statement_written};
ghost use Rattle.pdw_run.specs.Reading.{HasFault, IsScript, script_line};

use crate::refusal::{no_statements, no_tokens};
use pdw_base::NoMemory;
use pdw_lex::{LexError, lex};
use pdw_parse::{ParseError, parse};
use pdw_syntax::Statement;
use sqlite_items::Items;
use std::alloc::Global;

/// Why the bytes of a script are no statements.
#[derive(Clone, Copy, Debug, PartialEq, Eq)]
pub enum ScriptError {
    /// They are no tokens.
    Tokens(LexError),
    /// Their tokens are no statements.
    Statements(ParseError),
}

impl ScriptError {
    /// The line that refuses the script.
    pub fn line(self, alloc: Global) -> Result<String, NoMemory>
        ensures { IfOk result (λ line. script_line self ≡ Some (string_bytes line)) }
    {
        match self {
            ScriptError::Tokens(error) => no_tokens(alloc, error),
            ScriptError::Statements(error) => no_statements(alloc, error),
        }
    }
}

/// The statements of a script in order, or its first fault.
pub fn read_script(alloc: Global, script: &[u8]) -> Result<Items<Statement>, ScriptError>
    requires { length script.now ≤ 1048576 }
    ensures statements { IfOk result (λ statements. IsScript script.now statements) }
    ensures written { IfOk result (λ statements. list_all statement_written statements ≡ true) }
    ensures fault { IfErr result (λ error. HasFault script.now error) }
{
    let tokens = match lex(alloc, script) {
        Ok(tokens) => tokens,
        Err(error) => return Err(ScriptError::Tokens(error)),
    };
    match parse(alloc, tokens.as_slice(), script.len() as u32) {
        Ok(statements) => Ok(statements),
        Err(error) => Err(ScriptError::Statements(error)),
    }
}
