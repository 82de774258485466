//! A request to a running gateway is made, while no other one of its name waits for its answer.

ghost use Rattle.std.specs.Prelude.{◌≡◌, [], None, Some, string_bytes, true, IfOk};
ghost use Rattle.gw_system.specs.Folder.{Holds};
ghost use Rattle.gw_system.specs.Making.{IsMade};

use crate::folder::Folder;
use crate::pause::{LOOKS, Pause};
use crate::requests::AskedFile;
use crate::store::{Access, name_with};
use gw_wire::StoreFault;
use std::alloc::{AllocError, Global};
use std::net::Net;

/// How many seconds it is waited at most until others have the answer to a request of the same name.
const TURN_SECONDS: u32 = 10;

/// A request that was made: its files, and its text.
#[derive(Drop)]
pub struct MadeRequest {
    /// Its file, and that of its answer.
    pub files: AskedFile,
    /// Its text.
    pub text: Vec<u8>,
    /// The file that says whose turn it is, if it was made for this request.
    pub turn: Option<String>,
}

impl MadeRequest {
    /// The request of this name and text. The only fault is want of memory.
    fn of(alloc: Global, name: &str, text: &[u8]) -> Result<Self, AllocError>
        ensures { IfOk result (IsMade name.now text.now) }
    {
        Ok(MadeRequest {
            files: AskedFile::of(alloc, name)?,
            text: Vec::from_slice(alloc, text)?,
            turn: None,
        })
    }
}

/// Makes the file of a turn again that somebody left who was ended, which is empty; and answers whether it did.
fn renew_turn<F: Folder>(folder: &mut F, alloc: Global, turn: &str) -> bool
    ensures { result ≡ true → Holds (F.known folder.new turn.now) (Some []) }
{
    match folder.read(alloc, turn, 0) {
        Ok(Some(_)) if folder.take_away(turn).is_ok() => matches!(folder.make(turn), Ok(true)),
        _ => false,
    }
}

/// Makes the file of a turn, once nobody else has it or it was waited for that in vain; and answers whether it did.
pub(crate) fn take_turn<F: Folder, R: Net>(
    rt: &R,
    folder: &mut F,
    alloc: Global,
    turn: &str,
) -> bool
    ensures { result ≡ true → Holds (F.known folder.new turn.now) (Some []) }
{
    let Ok(mut pause) = Pause::new(rt, alloc) else {
        return false;
    };
    for _ in 0..TURN_SECONDS * LOOKS {
        match folder.make(turn) {
            Ok(true) => return true,
            Ok(false) => {}
            Err(_) => return false,
        }
        if pause.wait().is_err() {
            return false;
        }
    }
    renew_turn(folder, alloc, turn)
}

/// Makes the file of a request of this text, after the answer to an older one was taken away.
pub(crate) fn make_request<F: Folder>(
    folder: &mut F,
    alloc: Global,
    name: &str,
    text: &[u8],
) -> Result<MadeRequest, StoreFault>
    ensures is { IfOk result (IsMade name.now text.now) }
    ensures made { IfOk result (λ made. Holds (F.known folder.new (string_bytes made.files.request.name)) (Some text.now)) }
    ensures unanswered { IfOk result (λ made. Holds (F.known folder.new (string_bytes made.files.answer.name)) None) }
{
    let Ok(made) = MadeRequest::of(alloc, name, text) else {
        return Err(StoreFault::Memory);
    };
    let files = &made.files;
    if let Err(fault) = folder.take_away(&files.answer.name) {
        return Err(fault);
    }
    match folder.replace(&files.request, Access::Everyone, text) {
        Ok(()) => Ok(made),
        Err(fault) => Err(fault),
    }
}

/// Ends a turn that was taken by the file of this name.
pub(crate) fn end_turn<F: Folder>(folder: &mut F, turn: &Option<String>) {
    if let Some(turn) = turn {
        let _ = folder.take_away(turn);
    }
}

/// Makes the file of a request of this text, as [`make_request`] does, while nobody else who made one by the same file waits for the
/// answer. If that was waited for in vain it is made all the same.
pub(crate) fn make_in_turn<F: Folder, R: Net>(
    rt: &R,
    folder: &mut F,
    alloc: Global,
    name: &str,
    text: &[u8],
) -> Result<MadeRequest, StoreFault>
    ensures { IfOk result (IsMade name.now text.now) }
{
    let Ok(turn) = name_with(alloc, name, ".turn") else {
        return Err(StoreFault::Memory);
    };
    let is_taken = take_turn(rt, folder, alloc, &turn);
    let turn = if is_taken { Some(turn) } else { None };
    match make_request(folder, alloc, name, text) {
        Ok(
            MadeRequest {
                files,
                text,
                turn: _,
            },
        ) => Ok(MadeRequest { files, text, turn }),
        Err(fault) => {
            end_turn(folder, &turn);
            Err(fault)
        }
    }
}
