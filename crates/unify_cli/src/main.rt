//! The program `unify`. Without arguments it answers the bundle on standard input, or tells its
//! help where that is a terminal; with arguments it reads files.
#![tactic(auto)]

mod inventories;
mod site_files;
mod words;

use std::env::{Env, FillError};
use std::io::{BufReader, BufWriter, IsTerminal};
use std::process::ExitCode;
use std::{env, io};
use unify_bundle::{Watched, run_bundle};
use unify_io::{bundle_memory_refused, memory_refused};
use words::{run_words, tell_help};

/// How many bytes of standard input and output are read and written at once.
const BUFFER_BYTES: usize = 65536;

/// Answers the bundle on standard input, and returns the exit status.
fn run_stdin(rt: &HostRuntime) -> u8 {
    let Ok(reader) = BufReader::with_capacity(rt.alloc(), BUFFER_BYTES, rt.stdin()) else {
        return bundle_memory_refused(rt);
    };
    let Ok(writer) = BufWriter::with_capacity(rt.alloc(), BUFFER_BYTES, io::writer(rt)) else {
        return bundle_memory_refused(rt);
    };
    run_bundle(
        rt.alloc(),
        &mut Watched::new(reader),
        &mut Watched::new(writer),
    )
}

/// Runs the command of the program's words, and returns the exit status.
fn run_args(rt: &HostRuntime) -> u8 {
    let args = match env::args(rt) {
        Ok(args) => args,
        Err(error) => {
            return if error.kind() == io::ErrorKind::OutOfMemory {
                memory_refused(rt)
            } else {
                let _ = rt.eprintln("unify: an argument is not UTF-8");
                2
            };
        }
    };
    match args.collect::<Vec<String>>(rt.alloc()) {
        Err(_) => memory_refused(rt),
        Ok(words) => run_words(rt, words.get(1..).unwrap_or(&[])),
    }
}

/// Whether a word stands after the program's name. It takes no memory.
fn has_words(rt: &HostRuntime) -> bool {
    match rt.arg(1, &mut [0; 1]) {
        Err(FillError::NotPresent) => false,
        _ => true,
    }
}

fn main(rt: HostRuntime) -> ExitCode {
    let status = if has_words(&rt) {
        run_args(&rt)
    } else if rt.stdin().is_terminal() {
        tell_help(&rt)
    } else {
        run_stdin(&rt)
    };
    ExitCode::from(status)
}
