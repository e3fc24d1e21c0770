ghost use Rattle.std.specs.Prelude.{◌≡◌, ◌-◌, ◌++◌, length, min, take, drop, Some, IfOk};
ghost use Rattle.pdw_outside.specs.Entries.{entries, content_of};

use crate::content::{copy_from, find_content};
use crate::{Failed, Files};
use pdw_base::Str;
use std::marker::Model;

/// Files in memory whose reads never fail. An unknown name is an empty file.
#[derive(Drop)]
pub struct HonestFiles {
    files: Vec<(Str, Vec<u8>)>,
}

impl Model for HonestFiles {
    ghost use Rattle.std.specs.Prelude.{ℕ, List};
    ghost use Rattle.pdw_outside.specs.Entries.{entries};

    ghost Value = { List (List ℕ × List ℕ) };

    ghost view = { λ f. entries f.files.items };
}

impl HonestFiles {
    /// These names with their contents. Of several entries with one name the first stands.
    pub fn new(files: Vec<(Str, Vec<u8>)>) -> HonestFiles
        ensures { result ≡ entries files.items }
    {
        HonestFiles { files }
    }

    fn content(&self, name: &str) -> &[u8]
        ensures { result.now ≡ content_of self.now name.now }
    {
        match find_content(&self.files, name) {
            Some(content) => content,
            None => &[],
        }
    }
}

impl Files for HonestFiles {
    ghost bytes = { λ f name. Some (content_of f name) };

    ghost faults = { λ f name. 0 };

    fn read(&mut self, name: &str, at: u64, buf: &mut [u8]) -> Result<usize, Failed>
        ensures exact { result ≡ Ok (min (length buf.old) (length (content_of self.old name.now) - at)) }
        ensures given { IfOk result (λ count. buf.new ≡ take count (drop at (content_of self.old name.now)) ++ drop count buf.old) }
        ensures same { self.new ≡ self.old }
    {
        Ok(copy_from(self.content(name), at, usize::MAX, buf))
    }
}
