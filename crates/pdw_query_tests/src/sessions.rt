//! Sessions without files.

use pdw_engine::Session;
use pdw_outside::HonestFiles;
use pdw_test_support::{expanded, session_after};
use std::alloc::Global;
use std::test::Fail;

/// A session over three nodes after the statements that make its tables.
pub fn session_of(alloc: Global, tables: &str) -> Result<Session, Fail> {
    let script = expanded(alloc, tables)?;
    let mut files = HonestFiles::new(Vec::new(alloc));
    session_after(alloc, 3, script.as_str(), &mut files)
}
