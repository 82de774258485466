//! Requests by a file of a folder in memory: what is taken, and what becomes of the files.

ghost use Rattle.gw_program_vectors.specs.RequestFiles.{IsAnsweredThere, IsTakenOnceBy};

use crate::mem_folder::MemFolder;
use gw_cases::{MemSink, number_or_none, unfolded, wanted};
use gw_program_cases::put;
use gw_system::{FileRequests, ReadFailure, Request, Requests};
use std::alloc::{AllocError, Global};
use std::cell::RefCell;
use std::io;
use std::io::ErrorKind;

/// The name of the file of a request.
const REQUEST: &str = "request";

/// That of its answer.
const ANSWER: &str = "request.answer";

/// That of the configuration.
const CONFIG: &str = "config";

/// The text that each request is answered.
const ANSWERED: &[u8] = b"done";

/// How many octets of a configuration are read.
const MOST: usize = 16;

/// Takes a request away, if there is one.
fn take(alloc: Global, requests: &mut FileRequests<MemFolder<'_>>) -> Option<Request>
    ensures { IsTakenOnceBy requests.old requests.new result }
{
    requests.take(alloc, MOST)
}

/// Answers a request.
fn answer(requests: &mut FileRequests<MemFolder<'_>>, text: &[u8])
    ensures { IsAnsweredThere requests.old requests.new text.now }
{
    requests.answer(text);
}

/// Appends what a request asks for.
fn put_request(request: &Request, out: &mut Vec<u8>) -> Result<(), AllocError> {
    match request {
        Request::Reload(Ok(Some(text))) => {
            put(out, &[" reload="])?;
            out.extend_from_slice(text)
        }
        Request::Reload(Ok(None)) => put(out, &[" reload absent"]),
        Request::Reload(Err(ReadFailure::Memory)) => put(out, &[" reload out of memory"]),
        Request::Reload(Err(ReadFailure::Unreadable(_))) => put(out, &[" reload unreadable"]),
        Request::Stop => put(out, &[" stop"]),
        Request::Status => put(out, &[" status"]),
        Request::Untaken => put(out, &[" untaken"]),
    }
}

/// Appends what was taken.
fn put_taken(taken: &Option<Request>, out: &mut Vec<u8>) -> Result<(), AllocError> {
    match taken {
        Some(request) => put_request(request, out),
        None => put(out, &[" none"]),
    }
}

/// Does a step: `t` takes a request, `a` answers one.
fn step(
    alloc: Global,
    letter: u8,
    requests: &mut FileRequests<MemFolder<'_>>,
    out: &mut Vec<u8>,
) -> io::Result<()> {
    match letter {
        b't' => Ok(put_taken(&take(alloc, requests), out)?),
        b'a' => {
            answer(requests, ANSWERED);
            Ok(())
        }
        _ => Err(ErrorKind::InvalidData.into()),
    }
}

/// Puts a file into a folder, with the next text of a case, unless that is `-`.
fn put_file(
    alloc: Global,
    name: &str,
    text: Option<&str>,
    folder: &mut MemFolder<'_>,
) -> io::Result<()> {
    match wanted(text)? {
        "-" => Ok(()),
        text => Ok(folder.put(name, Some(unfolded(alloc, text)?))?),
    }
}

/// What is taken in some steps, and what becomes of the files. A case has the texts of the request, of its answer and of the configuration,
/// or `-`; the change of a file that fails, from 0, or `-`; and a letter for each step: `t`, a request is taken; `a`, one is answered.
/// A bar is between two of them.
pub fn requests(alloc: Global, line: &str, out: &mut Vec<u8>) -> io::Result<()> {
    let mut words = line.split('|');
    let shown = RefCell::new(MemSink::new(alloc, None, 0)?);
    let mut folder = MemFolder::new(alloc, &shown);
    put_file(alloc, REQUEST, words.next(), &mut folder)?;
    put_file(alloc, ANSWER, words.next(), &mut folder)?;
    put_file(alloc, CONFIG, words.next(), &mut folder)?;
    folder.fail(number_or_none(words.next())?);
    let mut requests = FileRequests::new(folder, alloc, REQUEST, CONFIG)?;
    put(out, &["took"])?;
    for letter in wanted(words.next())?.bytes() {
        step(alloc, letter, &mut requests, out)?;
    }
    match shown.try_borrow() {
        Ok(sink) => Ok(out.extend_from_slice(sink.shown()?)?),
        Err(_) => Err(ErrorKind::InvalidData.into()),
    }
}
