ghost use Rattle.std.specs.Prelude.{◌≡◌, ◌≤◌, length, None, IfOk};

use crate::{Failed, Files};
use std::io::{Read, Seek, SeekFrom};
use std::marker::Model;
use std::{fs, io, rt};

/// The files of the system. A missing file is a failure.
#[derive(Drop)]
pub struct DiskFiles<'a, R: rt::Files> {
    rt: &'a R,
    faults: u64,
}

impl<'a, R: rt::Files> Model for DiskFiles<'a, R> {
    ghost use Rattle.std.specs.Prelude.{ℕ};

    ghost Value = { ℕ };

    ghost view = { λ f. f.faults };
}

impl<'a, R: rt::Files> DiskFiles<'a, R> {
    /// The files that the runtime reaches, none of whose reads has failed yet.
    pub fn new(rt: &'a R) -> DiskFiles<'a, R>
        ensures { result ≡ 0 }
    {
        DiskFiles { rt, faults: 0 }
    }
}

impl<'a, R: rt::Files> Files for DiskFiles<'a, R> {
    ghost bytes = { λ f name. None };

    ghost faults = { λ f name. f };

    fn read(&mut self, name: &str, at: u64, buf: &mut [u8]) -> Result<usize, Failed> {
        match read_at(self.rt, name, at, buf) {
            Ok(count) => Ok(count),
            Err(_) => {
                self.faults = self.faults.saturating_add(1);
                Err(Failed)
            }
        }
    }
}

fn read_at<R: rt::Files>(rt: &R, name: &str, at: u64, buf: &mut [u8]) -> io::Result<usize>
    ensures { IfOk result (λ count. count ≤ length buf.old) }
{
    let mut file = fs::open(rt, name)?;
    file.seek(SeekFrom::Start(at))?;
    file.read(buf)
}
