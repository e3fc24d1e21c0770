//! The appliance as a program: a script of statements in, rows out.
#![tactic(auto)]

use pdw_base::{NoMemory, Str};
use pdw_outside::{DiskFiles, StdSink};
use pdw_run::Status;
use pdw_run::run::run;
use std::alloc::Global;
use std::process::ExitCode;
use std::rt::{Env, Files};
use std::{env, io};

/// The exit status where the runtime does not give the words of the command line.
const NO_WORDS: u8 = 6;

// The text of a word, as the run takes it.
fn word(alloc: Global, argument: &str) -> Result<Str, NoMemory> {
    match Str::from_bytes(alloc, argument.as_bytes())? {
        Some(word) => Ok(word),
        None => Err(NoMemory),
    }
}

// The words after the program's name, or the exit status where they are not to be had.
fn command_line<R: Env + AllocGlobal>(rt: &R) -> Result<Vec<Str>, u8> {
    let arguments = env::args(rt).map_err(|error| match error.kind() {
        io::ErrorKind::OutOfMemory => Status::Memory.exit_code(),
        // A word that is not UTF-8 is part of no command.
        io::ErrorKind::InvalidData => Status::BadWords.exit_code(),
        _ => NO_WORDS,
    })?;
    let mut words = Vec::new(rt.alloc());
    for argument in arguments.skip(1) {
        let Ok(word) = word(rt.alloc(), argument.as_str()) else {
            return Err(Status::Memory.exit_code());
        };
        if words.push(word).is_err() {
            return Err(Status::Memory.exit_code());
        }
    }
    Ok(words)
}

fn run_words<R: Env + Files + Print + AllocGlobal>(rt: &R) -> u8 {
    match command_line(rt) {
        Ok(words) => {
            let mut files = DiskFiles::new(rt);
            let mut out = StdSink::new(rt);
            run(rt.alloc(), words.as_slice(), &mut files, &mut out).exit_code()
        }
        Err(code) => code,
    }
}

fn main(rt: HostRuntime) -> ExitCode {
    ExitCode::from(run_words(&rt))
}
