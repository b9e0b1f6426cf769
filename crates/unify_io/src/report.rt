//! What the program tells when it cannot answer, and the answers to words, each with its exit
//! status.

use crate::files::FileFault;
use crate::message::{Part, push_part};
use crate::output::OutputFault;
use clap::Error;
use clap::error::ErrorKind;
use idtext::push_escaped;
use std::alloc::AllocError;
use std::io;
use std::io::{IsTerminal, Write};

/// A growth was refused before a bundle was read; what is told of a bundle stands on standard
/// output.
pub fn bundle_memory_refused(rt: &HostRuntime) -> u8 {
    let _ = io::writer(rt).write_all(b"unify: memory\n");
    3
}

/// A growth was refused in a command with arguments.
pub fn memory_refused(rt: &HostRuntime) -> u8 {
    let _ = rt.eprintln("unify: memory");
    3
}

/// Standard output took no more of what words are answered.
pub fn write_failed(rt: &HostRuntime) -> u8 {
    let _ = rt.eprintln("unify: write");
    3
}

// A name or a path as it is told: a hyphen stands for an empty one.
fn shown(name: &[u8]) -> &[u8] {
    if name.is_empty() { b"-" } else { name }
}

// Tells a line that is all that a command answers.
fn tell(rt: &HostRuntime, line: &[u8], status: u8) -> FileFault {
    let _ = rt.stderr().write_all(line);
    FileFault::Told(status)
}

// Appends the parts of what is told.
fn push_parts(rt: &HostRuntime, line: &mut Vec<u8>, parts: &[Part<'_>]) -> Result<(), AllocError> {
    for part in parts {
        push_part(rt, line, *part)?;
    }
    Ok(())
}

// Appends the line that tells of a thing.
fn push_told_of<'a>(
    rt: &HostRuntime,
    line: &mut Vec<u8>,
    kind: &'a str,
    name: &'a [u8],
    parts: &[Part<'_>],
) -> Result<(), AllocError> {
    let head = [
        Part::Text("unify: "),
        Part::Text(kind),
        Part::Text(" "),
        Part::Name(shown(name)),
        Part::Text(": "),
    ];
    push_parts(rt, line, &head)?;
    push_parts(rt, line, parts)?;
    line.extend_from_slice(b"\n")
}

/// Tells of a thing that words name, what kind of thing it is first, why the command does not
/// go on: that line is all that it answers, with this status. Want of memory is told later.
pub fn tell_of(
    rt: &HostRuntime,
    kind: &str,
    name: &[u8],
    parts: &[Part<'_>],
    status: u8,
) -> FileFault {
    let mut line = Vec::new(rt.alloc());
    match push_told_of(rt, &mut line, kind, name, parts) {
        Ok(()) => tell(rt, &line, status),
        Err(_) => FileFault::Memory,
    }
}

/// Tells why a file was not read or written, unless it was for want of memory, which is told
/// later.
pub fn file_failed(rt: &HostRuntime, path: &str, error: &io::Error) -> FileFault {
    if error.kind() == io::ErrorKind::OutOfMemory {
        return FileFault::Memory;
    }
    tell_of(rt, "file", path.as_bytes(), &[Part::Failed(*error)], 3)
}

// Why nothing is written into a directory, in three parts.
fn parts_of(fault: OutputFault<'_>) -> [Part<'_>; 3] {
    let none = Part::Text("");
    match fault {
        OutputFault::EmptyWord => [Part::Text("an empty word"), none, none],
        OutputFault::System(error) => [Part::Failed(error), none, none],
        OutputFault::HostDirectory(host) => [
            Part::Text("the directory of host "),
            Part::Name(shown(host.as_bytes())),
            none,
        ],
        OutputFault::Busy => [Part::Text("another merge is writing there"), none, none],
        OutputFault::HostFile(name) => [
            Part::Text("holds "),
            Part::Name(name.as_bytes()),
            Part::Text(", as the directory of a host does"),
        ],
        OutputFault::Directory(name) => [
            Part::Text("holds "),
            Part::Name(name.as_bytes()),
            Part::Text(", which is a directory"),
        ],
        OutputFault::Foreign(name) => [
            Part::Text("holds "),
            Part::Name(name.as_bytes()),
            Part::Text(", and no report of an earlier merge"),
        ],
    }
}

/// Tells why nothing is written into a directory, unless it is for want of memory, which is told
/// later.
pub fn output_refused(rt: &HostRuntime, directory: &str, fault: OutputFault<'_>) -> FileFault {
    if fault.is_memory() {
        return FileFault::Memory;
    }
    tell_of(rt, "output", directory.as_bytes(), &parts_of(fault), 2)
}

/// Gives advice, where standard error is a terminal.
pub fn tell_hint(rt: &HostRuntime, advice: &str) {
    if rt.stderr().is_terminal() {
        let _ = rt.eprintln(advice);
    }
}

/// No word names a host.
pub fn no_host(rt: &HostRuntime) -> FileFault {
    tell(rt, b"unify: no HOST\n", 2)
}

// Appends the line of a fault of the program itself.
fn push_internal(line: &mut Vec<u8>, what: &str) -> Result<(), AllocError> {
    line.extend_from_slice(b"unify: internal error: ")?;
    line.extend_from_slice(what.as_bytes())?;
    line.extend_from_slice(b"\n")
}

/// Tells what is so and never should be, whatever the words and the files are: a fault of the
/// program itself.
pub fn internal_error(rt: &HostRuntime, what: &str) -> FileFault {
    let mut line = Vec::new(rt.alloc());
    match push_internal(&mut line, what) {
        Ok(()) => tell(rt, &line, 3),
        Err(_) => FileFault::Memory,
    }
}

/// Tells a fault that is still to be told, and returns the status.
pub fn file_fault_told(rt: &HostRuntime, fault: FileFault) -> u8 {
    match fault {
        FileFault::Memory => memory_refused(rt),
        FileFault::Told(status) => status,
    }
}

// Appends a letter. One that would act on a terminal is escaped, except for a newline.
fn push_letter(told: &mut Vec<u8>, letter: char) -> Result<(), AllocError> {
    let mut buffer = [0; 4];
    let bytes = letter.encode_utf8(&mut buffer).as_bytes();
    if letter.is_control() && letter != '\n' {
        push_escaped(told, bytes)
    } else {
        told.extend_from_slice(bytes)
    }
}

// Appends a text of several lines. What would act on a terminal is escaped.
fn push_harmless(told: &mut Vec<u8>, text: &str) -> Result<(), AllocError> {
    for letter in text.chars() {
        push_letter(told, letter)?;
    }
    Ok(())
}

// What is wrong with the words.
fn wrong_words_text(rt: &HostRuntime, error: &Error) -> Result<Vec<u8>, AllocError> {
    let text = error.to_string(rt.alloc())?;
    let mut told = Vec::new(rt.alloc());
    push_harmless(&mut told, text.as_str())?;
    Ok(told)
}

/// Tells what is wrong with the words, and returns the status.
pub fn wrong_words(rt: &HostRuntime, error: &Error) -> u8 {
    match wrong_words_text(rt, error) {
        Ok(told) => {
            let _ = rt.stderr().write_all(&told);
            2
        }
        Err(_) => memory_refused(rt),
    }
}

/// Prints an answer with its status, and returns the status that the program ends with: a
/// refusal goes to standard error.
pub fn print_answer(rt: &HostRuntime, status: u8, text: &[u8]) -> u8 {
    if status != 0 {
        let _ = rt.stderr().write_all(text);
        return status;
    }
    if io::writer(rt).write_all(text).is_err() {
        return write_failed(rt);
    }
    0
}

/// Tells help and version on standard output, and what is wrong with the words on standard error.
pub fn tell_usage(rt: &HostRuntime, error: &Error) -> u8 {
    if error.kind() == ErrorKind::OutOfMemory {
        return memory_refused(rt);
    }
    if error.use_stderr() {
        return wrong_words(rt, error);
    }
    if error.print(rt).is_err() {
        return write_failed(rt);
    }
    0
}
