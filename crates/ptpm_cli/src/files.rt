//! Files that the words of the command line name.

use std::alloc::Global;
use std::io::Read;
use std::rt::Files;
use std::{fs, io};

/// No more is read of a plan file: one octet more than it may have, so that a longer one is refused.
pub(crate) const MOST_PLAN: u64 = 262_145;

/// The first octets of a file.
pub(crate) fn read_file<F: Files>(
    alloc: Global,
    files: &F,
    path: &str,
    most: u64,
) -> io::Result<Vec<u8>> {
    let file = fs::open(files, path)?;
    let mut text = Vec::new(alloc);
    file.take(most).read_to_end(&mut text)?;
    Ok(text)
}
