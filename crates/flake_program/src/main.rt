//! A key-value server over files: requests from a file, replies to a wire.
#![tactic(auto)]

use file_outside::{FileHost, FileWire};
use flake_base::{Memory, Wire};
use flake_run::run::run;
use flake_run::{OUT_OF_MEMORY, Refusal};
use session_pass::NoGate;
use std::alloc::AllocError;
use std::env;
use std::io::ErrorKind;
use std::process::ExitCode;
use std::sync::Wait;
use std::thread::Threads;

/// As many files as a `check` opens at most: a journal, and 16 sessions' inputs and replies.
const MOST_FILES: usize = 33;

// The words behind the program's name; none where one is no text, which makes them bad words.
fn command_line(rt: &HostRuntime) -> Result<Vec<String>, AllocError> {
    let mut words = Vec::new(rt.alloc());
    match env::args(rt) {
        Ok(args) => {
            for word in args.skip(1) {
                words.push(word)?;
            }
            Ok(words)
        }
        Err(error) if error.kind() == ErrorKind::OutOfMemory => Err(AllocError),
        Err(_) => Ok(words),
    }
}

// Session k writes to `outk.resp` in the folder where the program runs.
fn run_over_files<R: Threads + Wait + Sync>(runs: &R, rt: &HostRuntime) -> Result<u8, Memory> {
    let alloc = rt.alloc();
    let words = command_line(rt)?;
    let mut wires: Vec<Box<dyn Wire>> = Vec::with_capacity(alloc, 16)?;
    for session in 0..16 {
        let name = format!(in alloc; "out{session}.resp")?;
        let wire = FileWire::new(rt.clone()?, alloc, name)?;
        wires.push(Box::new(alloc, wire)?)?;
    }
    // The first word names the command, and each of the others at most one file.
    let files = words.len().saturating_sub(1).min(MOST_FILES);
    let mut host = FileHost::new(rt.clone()?, alloc, files)?;
    let outcome = run(runs, alloc, words.as_slice(), &mut host, wires, &NoGate);
    Ok(outcome.status)
}

fn main(rt: HostRuntime) -> ExitCode {
    match run_over_files(&rt, &rt) {
        Ok(status) => ExitCode::from(status),
        Err(Memory) => {
            let _ = rt.print(Refusal::Memory.text());
            ExitCode::from(OUT_OF_MEMORY)
        }
    }
}
