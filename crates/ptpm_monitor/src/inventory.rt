//! The file of an inventory.

use ptpm_commands::Fault;
use ptpm_expected::inventory::Inventory;
use ptpm_expected::inventory_fault::InventoryFault;
use ptpm_expected::inventory_file::read_inventory;
use std::alloc::Global;
use std::io::{Read, Write};
use std::rt::Files;
use std::{fs, io};

/// One octet more than a file may have, so that a longer one is refused.
const MOST: u64 = 16_777_217;

/// The inventory at a path. If there is none, `err` has a line that says why.
pub fn inventory_at<F: Files, E: Write>(
    alloc: Global,
    files: &F,
    path: &str,
    err: &mut E,
) -> Result<Option<Inventory>, Fault> {
    let text = match read_file(alloc, files, path) {
        Ok(text) => text,
        Err(error) if error.kind() == io::ErrorKind::OutOfMemory => return Err(Fault::OutOfMemory),
        Err(error) => {
            let _ = writeln!(err, "{path}: {error}");
            return Ok(None);
        }
    };
    match read_inventory(alloc, text.as_slice()) {
        Ok(inventory) => Ok(Some(inventory)),
        Err(InventoryFault::OutOfMemory) => Err(Fault::OutOfMemory),
        Err(fault) => {
            let _ = writeln!(err, "{path}: {fault}");
            Ok(None)
        }
    }
}

fn read_file<F: Files>(alloc: Global, files: &F, path: &str) -> io::Result<Vec<u8>> {
    let file = fs::open(files, path)?;
    let mut text = Vec::new(alloc);
    file.take(MOST).read_to_end(&mut text)?;
    Ok(text)
}
