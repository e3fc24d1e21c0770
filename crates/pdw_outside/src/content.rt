ghost use Rattle.std.specs.Prelude.{◌≡◌, ◌-◌, ◌++◌, length, min, take, drop};
ghost use Rattle.std.specs.Option.{option_copied};
ghost use Rattle.pdw_outside.specs.Entries.{entries, content_at};

use pdw_base::Str;

/// The content of the first entry with this name.
pub(crate) fn find_content<'a>(files: &'a [(Str, Vec<u8>)], name: &str) -> Option<&'a [u8]>
    ensures { option_copied result ≡ content_at (entries files.entry.now) name.now }
{
    for file in files {
        if name == file.0.text() {
            return Some(file.1.as_slice());
        }
    }
    None
}

/// Copies bytes from place `at` of the content into the buffer, no more than `most`, and answers how many.
pub(crate) fn copy_from(content: &[u8], at: u64, most: usize, buf: &mut [u8]) -> usize
    ensures count { result ≡ min most (min (length buf.old) (length content.now - at)) }
    ensures given { buf.new ≡ take result (drop at content.now) ++ drop result buf.old }
{
    let left = if at < content.len() as u64 {
        &content[at as usize..]
    } else {
        &[]
    };
    let count = most.min(buf.len().min(left.len()));
    buf[..count].copy_from_slice(&left[..count]);
    count
}
