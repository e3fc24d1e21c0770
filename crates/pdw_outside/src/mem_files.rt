ghost use Rattle.std.specs.Prelude.{◌≡◌, ◌<◌, ◌≤◌, ◌++◌, ℕ, List, length, take, drop, IfOk, OnErr};
ghost use Rattle.pdw_outside.specs.Entries.{entries, content_at, content_of};
ghost use Rattle.pdw_outside.specs.Files.{EndsBy};
ghost use Rattle.pdw_outside.specs.MemFiles.{Scripted, faults_of, read_answer, after_read};

use crate::content::{copy_from, find_content};
use crate::schedule::Schedule;
use crate::{Failed, Files};
use pdw_base::Str;
use std::marker::Model;

/// Files in memory that fail where they are told to, and at an unknown name, and that give a file in pieces.
#[derive(Drop)]
pub struct MemFiles {
    files: Vec<(Str, Vec<u8>)>,
    calls: Schedule,
    piece: usize,
    known: u64,
    unknown: u64,
}

impl Model for MemFiles {
    ghost use Rattle.std.specs.Prelude.{◌≤◌};
    ghost use Rattle.pdw_outside.specs.Entries.{entries};
    ghost use Rattle.pdw_outside.specs.MemFiles.{Scripted};

    ghost Value = { Scripted };

    ghost view = { λ f. record { files = entries f.files.items; calls = f.calls; piece = f.piece; known = f.known; unknown = f.unknown } };

    ghost invariant = { λ f. 1 ≤ f.piece };
}

impl MemFiles {
    /// These names with their contents, of which a read gives no more than `piece` bytes. Of several entries with one
    /// name the first stands. Read calls are numbered from 1, and those whose number is in `fails` fail, as do those of
    /// an unknown name.
    ///
    /// There are two counts of faults, up to 2^64 - 1: one for every name that is there, and one for every other.
    pub fn new(files: Vec<(Str, Vec<u8>)>, fails: Vec<u64>, piece: usize) -> MemFiles
        requires { 1 ≤ piece }
        ensures { result ≡ record { files = entries files.items; calls = record { made = 0; fails = fails.items }; piece = piece; known = 0; unknown = 0 } }
    {
        MemFiles {
            files,
            calls: Schedule::new(fails),
            piece,
            known: 0,
            unknown: 0,
        }
    }
}

impl Files for MemFiles {
    ghost bytes = { λ f name. content_at f.files name };

    ghost faults = { faults_of };

    fn read(&mut self, name: &str, at: u64, buf: &mut [u8]) -> Result<usize, Failed>
        ensures answer { result ≡ read_answer self.old name.now at (length buf.old) }
        ensures after { self.new ≡ after_read self.old name.now }
        ensures given { IfOk result (λ count. buf.new ≡ take count (drop at (content_of self.old.files name.now)) ++ drop count buf.old) }
        ensures untouched { OnErr result (buf.new ≡ buf.old) }
        ensures at_end { IfOk result (λ count. count ≡ 0 → 0 < length buf.old → EndsBy (content_at self.old.files name.now) at) }
        ensures never_falls { (other : List ℕ) → faults_of self.old other ≤ faults_of self.new other }
    {
        let fails = self.calls.next_fails();
        match find_content(&self.files, name) {
            Some(content) if !fails => Ok(copy_from(content, at, self.piece, buf)),
            Some(_) => {
                self.known = self.known.saturating_add(1);
                Err(Failed)
            }
            None => {
                self.unknown = self.unknown.saturating_add(1);
                Err(Failed)
            }
        }
    }
}
