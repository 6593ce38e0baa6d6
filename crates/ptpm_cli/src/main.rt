//! The program `ptpm`: management messages of the Precision Time Protocol at the command line.
#![tactic(auto)]

mod command;
mod command_line;
mod files;
mod plan;
mod site;
mod task;

use std::io;
use std::io::BufWriter;
use std::process::ExitCode;

fn main(rt: HostRuntime) -> ExitCode {
    let status = match run(&rt) {
        Ok(status) => status,
        Err(error) if error.kind() == io::ErrorKind::InvalidData => {
            let _ = eprintln!(rt; "error: a word of the command line is not UTF-8");
            2
        }
        Err(_) => {
            let _ = eprintln!(rt; "ptpm: OutOfMemory");
            1
        }
    };
    ExitCode::from(status)
}

/// The exit status of the program's words over the standard streams. It fails if a word is no text (InvalidData), or
/// memory for the words or for output is refused.
fn run(rt: &HostRuntime) -> io::Result<u8> {
    let alloc = rt.alloc();
    let words: Vec<String> = std::env::args(rt)?.collect(alloc)?;
    let words: Vec<&str> = words.iter().map(|word| word.as_str()).collect(alloc)?;
    let mut out = BufWriter::new(alloc, rt.stdout())?;
    Ok(command::command(
        alloc,
        rt,
        words.as_slice(),
        &mut rt.stdin(),
        &mut out,
        &mut rt.stderr(),
    ))
}
