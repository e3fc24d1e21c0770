ghost use Rattle.std.specs.Prelude.{◌≡◌, IfOk};
ghost use Rattle.std.specs.Str.{bytes_eq};
ghost use Rattle.std.specs.Hash as fed;
ghost use Rattle.std.specs.Cmp.{partial_equiv_from_equiv};
ghost use Rattle.std.specs.Cmp.Lexicographic.{nat_list_eq_equiv};
ghost use Rattle.std.specs.Cmp.Rules.{hashing};
ghost use Rattle.std.proofs.Common.{rules};
ghost use Rattle.pdw_base.specs.Text.{text_of};

use crate::NoMemory;
use std::alloc::Global;
use std::hash::{Hash, Hasher};
use std::marker::Model;
use std::str;

/// A text in UTF-8, which contracts see as its bytes.
#[derive(Debug, Drop)]
pub struct Str {
    held: String,
}

impl Model for Str {
    ghost use Rattle.std.specs.Prelude.{ℕ, List};
    ghost use Rattle.std.specs.String.{string_bytes};

    ghost Value = { List ℕ };

    ghost view = { λ s. string_bytes s.held };
}

impl Str {
    /// The text of these bytes, or None where they are not UTF-8.
    pub fn from_bytes(alloc: Global, bytes: &[u8]) -> Result<Option<Str>, NoMemory>
        ensures { IfOk result (λ found. found ≡ text_of bytes.now) }
    {
        match str::from_utf8(bytes) {
            Ok(text) => Ok(Some(Str {
                held: String::from_str(alloc, text)?,
            })),
            Err(_) => Ok(None),
        }
    }

    /// The text of a text slice.
    pub fn from_text(alloc: Global, text: &str) -> Result<Str, NoMemory>
        ensures { IfOk result (λ owned. owned ≡ text.now) }
    {
        Ok(Str {
            held: String::from_str(alloc, text)?,
        })
    }

    pub fn bytes(&self) -> &[u8]
        ensures { result.now ≡ self.now }
    {
        self.held.as_bytes()
    }

    pub fn text(&self) -> &str
        ensures { result.now ≡ self.now }
    {
        self.held.as_str()
    }

    /// An equal text.
    pub fn try_copy(&self, alloc: Global) -> Result<Str, NoMemory>
        ensures { IfOk result (λ copy. copy ≡ self.now) }
    {
        Ok(Str {
            held: String::from_str(alloc, self.held.as_str())?,
        })
    }
}

impl PartialEq for Str {
    ghost eq = { bytes_eq };

    ghost laws = { partial_equiv_from_equiv nat_list_eq_equiv };

    fn eq(&self, other: &Str) -> bool {
        self.text() == other.text()
    }
}

impl Eq for Str {
    ghost laws = { nat_list_eq_equiv };
}

impl Hash for Str {
    ghost hash_input = { fed.str };

    ghost respects_eq = { Prim.search (hashing, rules) };

    fn hash<H: Hasher>(&self, state: &mut H) {
        self.text().hash(state);
    }
}
