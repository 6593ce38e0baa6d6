//! A reader that is interrupted, and writers that are, or that take nothing.

use ptpm_world::{ScriptError, run_script};
use std::io;
use std::io::{Read, Write};
use std::test::Fail;

/// An empty network, and an event.
const SCRIPT: &[u8] = b"version = 1\n%%\nsend m\n";

/// Fails, and would go on if it were asked again.
#[derive(Drop)]
struct InterruptedReader;

impl Read for InterruptedReader {
    fn read(&mut self, _buffer: &mut [u8]) -> io::Result<usize> {
        Err(io::Error::from(io::ErrorKind::Interrupted))
    }
}

/// A read that is interrupted is not tried again.
#[test]
fn interrupted_read(rt: HostRuntime) {
    let script = SCRIPT.chain(InterruptedReader);
    let ended = run_script(rt.alloc(), script, &mut io::sink());
    assert!(rt; ended == Err(ScriptError::ReadFault));
}

/// Is interrupted before each write, and takes one octet of it, or none.
#[derive(Drop)]
struct InterruptedWriter {
    taken: Vec<u8>,
    is_ready: bool,
    is_full: bool,
}

impl Write for InterruptedWriter {
    fn write(&mut self, octets: &[u8]) -> io::Result<usize> {
        self.is_ready = !self.is_ready;
        if self.is_ready {
            return Err(io::Error::from(io::ErrorKind::Interrupted));
        }
        match octets.first() {
            Some(octet) if !self.is_full => {
                self.taken.push(*octet)?;
                Ok(1)
            }
            _ => Ok(0),
        }
    }

    fn flush(&mut self) -> io::Result<()> {
        Ok(())
    }
}

/// A write that is interrupted is tried again. One that takes nothing has failed.
#[test]
fn interrupted_write(rt: HostRuntime) -> Result<(), Fail> {
    let alloc = rt.alloc();
    let mut out = InterruptedWriter {
        taken: Vec::new(alloc),
        is_ready: false,
        is_full: false,
    };
    run_script(alloc, SCRIPT, &mut out)?;
    assert!(rt; out.taken.as_slice() == b"1 send refused NoSuchName\n".as_slice());
    out.is_full = true;
    let ended = run_script(alloc, SCRIPT, &mut out);
    assert!(rt; ended == Err(ScriptError::WriteFault));
    Ok(())
}
