//! Words of a command line, and how a program ends at each fault.

use gw_ending::{Fault, end};
use std::alloc::{AllocError, Global};
use std::io;
use std::process::ExitCode;

/// The words of a call, the program's name first, from a line with a bar between two words. In a
/// word `\n` is a line feed. An empty line has none but the name.
pub fn call(alloc: Global, program: &str, line: &str) -> Result<Vec<String>, AllocError> {
    let mut call = Vec::new(alloc);
    call.push(String::from_str(alloc, program)?)?;
    if line.is_empty() {
        return Ok(call);
    }
    for word in line.split('|') {
        call.push(word.replace(alloc, "\\n", "\n")?)?;
    }
    Ok(call)
}

/// Appends what is in front of a file and its name, if there is one.
pub fn put_file(out: &mut Vec<u8>, front: &str, file: &Option<String>) -> Result<(), AllocError> {
    match file {
        Some(file) => put(out, &[front, file.as_str()]),
        None => Ok(()),
    }
}

/// Appends a word where it is given.
pub fn put_flag(out: &mut Vec<u8>, word: &str, is_given: bool) -> Result<(), AllocError> {
    if is_given { put(out, &[word]) } else { Ok(()) }
}

/// Appends texts.
pub fn put(out: &mut Vec<u8>, texts: &[&str]) -> Result<(), AllocError> {
    for text in texts {
        out.extend_from_slice(text.as_bytes())?;
    }
    Ok(())
}

/// Room for the line of any fault.
const LINE_ROOM: usize = 256;

/// The exit status of each fault of the program of this name, and its line on standard error.
pub fn put_faults(
    alloc: Global,
    program: &str,
    faults: &[Fault],
    out: &mut Vec<u8>,
) -> io::Result<()> {
    for fault in faults {
        let mut errors = Vec::with_capacity(alloc, LINE_ROOM)?;
        let code = end(program, Err(*fault), &mut errors);
        put(out, &[status_text(code), " "])?;
        out.extend_from_slice(&errors)?;
    }
    Ok(())
}

/// An exit status in digits.
pub fn status_text(code: ExitCode) -> &'static str {
    if code == ExitCode::SUCCESS {
        "0"
    } else if code == ExitCode::FAILURE {
        "1"
    } else if code == ExitCode::from(2) {
        "2"
    } else if code == ExitCode::from(3) {
        "3"
    } else {
        "none of 0 to 3"
    }
}
