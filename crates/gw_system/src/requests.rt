//! What asks a running gateway to read its configuration again, to stop, or to say what it counts.

ghost use Rattle.std.specs.Prelude.{◌≡◌, ◌≢◌, ◌++◌, ◌∷◌, [], ℕ, List, Some, None, true, false, if◌then◌else◌, codes, string_bytes, IfOk, IfSome};
ghost use Rattle.gw_system.specs.Folder.{Holds, IsAnswer, IsTakenAway};
ghost use Rattle.gw_system.specs.FileRequests.{AreFilesOf, HasSameNames, IsAnswered, IsTaken, IsTakenBy, IsTakenSo, IsTold, KeepsOthers, RequestFiles};
ghost use Rattle.gw_system.specs.Request.{is_request};
ghost use Rattle.gw_system.specs.Requests.{Asking, GoesOn, IsAsking, answered, asked_by, silent, recorded_by};

use crate::folder::Folder;
use crate::obstacle::Obstacle;
use crate::pause::{LOOKS, Pause};
use crate::reading::ReadFailure;
use crate::replacing::FileName;
use crate::request::{MAX_REQUEST, Request, given_by, is_request, is_status, is_stop};
use crate::store::{Access, name_with};
use std::alloc::{AllocError, Global};
use std::marker::Model;
use std::net::Net;

/// What asks a running gateway to read its configuration again, to stop or to say what it counts, and is answered.
pub trait Requests {
    /// What is known of it: that nobody asks, nothing, or what it asked and was answered so far, in order.
    ghost recorded: { Self → Asking };

    /// Takes a request away, and says what it asks for: if that is to read the configuration again, with its text, of which
    /// there are at most so many octets. `None` if there was no request. What has its name and isn't taken is told of once.
    fn take(&mut self, alloc: Global, most: usize) -> Option<Request>
        ensures { GoesOn (recorded self.old) (recorded self.new) (asked_by result ∷ []) };

    /// Answers the request that was taken last. An answer that can't be given is left out.
    fn answer(&mut self, text: &[u8])
        requires { IsAsking (recorded self.old) }
        ensures { GoesOn (recorded self.old) (recorded self.new) (answered text.now ∷ []) };
}

/// What asks nothing, or what asks.
impl<Q: Requests> Requests for Option<Q> {
    ghost recorded = { recorded_by Q.recorded };

    fn take(&mut self, alloc: Global, most: usize) -> Option<Request> {
        match self {
            Some(requests) => requests.take(alloc, most),
            None => None,
        }
    }

    fn answer(&mut self, text: &[u8]) {
        if let Some(requests) = self {
            requests.answer(text);
        }
    }
}

/// A request that is a file, and the file of its answer, whose name has `.answer` after its name.
#[derive(Drop)]
pub struct AskedFile {
    /// The file of the request.
    pub request: FileName,
    /// The file of the answer.
    pub answer: FileName,
    pub ghost differ: { string_bytes request.name ≢ string_bytes answer.name },
    pub ghost aside: { string_bytes request.beside ≢ string_bytes answer.name },
}

impl AskedFile {
    /// The request of this name, with its answer. The only fault is want of memory.
    pub(crate) fn of(alloc: Global, request: &str) -> Result<Self, AllocError>
        ensures request { IfOk result (λ asked. string_bytes asked.request.name ≡ request.now) }
        ensures answer { IfOk result (λ asked. string_bytes asked.answer.name ≡ request.now ++ codes ".answer") }
        ensures beside { IfOk result (λ asked. string_bytes asked.request.beside ≡ request.now ++ codes ".new") }
        ensures answer_beside { IfOk result (λ asked. string_bytes asked.answer.beside ≡ request.now ++ codes ".answer.new") }
    {
        let answer = name_with(alloc, request, ".answer")?;
        Ok(AskedFile {
            request: FileName::of(alloc, request)?,
            answer: FileName::of(alloc, &answer)?,
        })
    }
}

/// Requests by a file in a folder. It is looked for at each call and taken away, and the answer is a file too. Contracts see
/// the folder, the names of these files and of the configuration, and whether it was told that a request isn't taken.
#[derive(Drop)]
pub struct FileRequests<F> {
    folder: F,
    asked: AskedFile,
    config: String,
    told: bool,
}

impl<F> Model for FileRequests<F> {
    ghost use Rattle.gw_system.specs.FileRequests.{RequestFiles};
    ghost use Rattle.std.specs.Prelude.{string_bytes};

    ghost Value = { RequestFiles F };

    ghost view = { λ r. record {
      folder = r.folder;
      request = string_bytes r.asked.request.name;
      answer = string_bytes r.asked.answer.name;
      beside = string_bytes r.asked.answer.beside;
      config = string_bytes r.config;
      told = r.told;
    } };
}

/// The text of the file of a request, if that is a regular one whose whole text is a request. Anything else stays where it is.
fn find_request<F: Folder>(folder: &F, alloc: Global, name: &str) -> Option<Vec<u8>>
    ensures held { IfSome result (λ text. Holds (F.known folder.now name.now) (Some text.items)) }
    ensures one { IfSome result (λ text. is_request text.items ≡ true) }
{
    if !folder.is_regular(name) {
        return None;
    }
    match folder.read(alloc, name, MAX_REQUEST) {
        Ok(Some(text)) if is_request(&text) => Some(text),
        _ => None,
    }
}

/// Takes the file of a request away, and before it the answer to an older one; and answers whether both were done.
fn take_request<F: Folder>(folder: &mut F, asked: &AskedFile) -> bool
    ensures taken { result ≡ true → IsTakenAway (F.known folder.old (string_bytes asked.now.request.name))
        (F.known folder.new (string_bytes asked.now.request.name)) }
    ensures unanswered { result ≡ true → Holds (F.known folder.new (string_bytes asked.now.answer.name)) None }
    ensures others { (other : List ℕ) → other ≢ string_bytes asked.now.request.name →
        other ≢ string_bytes asked.now.answer.name → F.known folder.new other ≡ F.known folder.old other }
{
    if folder.take_away(&asked.answer.name).is_err() {
        return false;
    }
    match folder.take_away(&asked.request.name) {
        Ok(was_there) => was_there,
        Err(_) => false,
    }
}

impl<F: Folder + Drop> FileRequests<F> {
    /// The requests by the file of this name to read that configuration. The only fault is want of memory.
    pub fn new(folder: F, alloc: Global, request: &str, config: &str) -> Result<Self, AllocError>
        ensures { IfOk result (AreFilesOf folder request.now config.now) }
    {
        Ok(FileRequests {
            folder,
            asked: AskedFile::of(alloc, request)?,
            config: name_with(alloc, config, "")?,
            told: false,
        })
    }
}

impl<F: Folder> FileRequests<F> {
    /// Reads the configuration for a request of this text that was taken away.
    fn read_for(&self, alloc: Global, line: &[u8], most: usize) -> Request
        requires one { is_request line.now ≡ true }
        ensures { (before : RequestFiles F) → IsTaken F.known before self.now line.now → HasSameNames before self.now →
            self.now.told ≡ false → IsTakenSo F.known before self.now result }
    {
        if is_stop(line) {
            return Request::Stop;
        }
        if is_status(line) {
            return Request::Status;
        }
        let read = self.folder.read(alloc, &self.config, most);
        Request::Reload(given_by(alloc, line, read))
    }

    /// Takes a request of this text away, and answers whether that was done.
    fn take_line(&mut self, line: &[u8]) -> bool
        requires held { Holds (F.known self.old.folder self.old.request) (Some line.now) }
        ensures taken { result ≡ true → IsTaken F.known self.old self.new line.now }
        ensures names { HasSameNames self.old self.new }
        ensures told { self.new.told ≡ (if result then false else self.old.told) }
        ensures others { KeepsOthers F.known self.old self.new }
    {
        let taken = take_request(&mut self.folder, &self.asked);
        if taken {
            self.told = false;
        }
        taken
    }

    /// Says whether something has the name of a request, which isn't taken then, unless that was told before.
    fn tell(&mut self) -> Option<Request>
        ensures told { IsTold F.known self.old self.new result }
        ensures names { HasSameNames self.old self.new }
        ensures others { KeepsOthers F.known self.old self.new }
    {
        let was_told = self.told;
        self.told = self.folder.has(&self.asked.request.name);
        if self.told && !was_told {
            Some(Request::Untaken)
        } else {
            None
        }
    }

    /// The text of a request, if there is one.
    fn find(&self, alloc: Global) -> Option<Vec<u8>>
        ensures held { IfSome result (λ line. Holds (F.known self.now.folder self.now.request) (Some line.items)) }
        ensures one { IfSome result (λ line. is_request line.items ≡ true) }
    {
        find_request(&self.folder, alloc, &self.asked.request.name)
    }

    /// Takes a request away, if there is one, and gives its text.
    fn take_found(&mut self, alloc: Global) -> Option<Vec<u8>>
        ensures taken { IfSome result (λ line. IsTaken F.known self.old self.new line.items) }
        ensures one { IfSome result (λ line. is_request line.items ≡ true) }
        ensures names { HasSameNames self.old self.new }
        ensures told { IfSome result (λ _. self.new.told ≡ false) }
        ensures untold { result ≡ None → self.new.told ≡ self.old.told }
        ensures others { KeepsOthers F.known self.old self.new }
    {
        match self.find(alloc) {
            Some(line) => {
                if self.take_line(&line) {
                    Some(line)
                } else {
                    None
                }
            }
            None => None,
        }
    }

    /// Looks for a request, and takes it away if its whole text is one.
    fn look(&mut self, alloc: Global, most: usize) -> Option<Request>
        ensures taken { IsTakenBy F.known self.old self.new result }
        ensures names { HasSameNames self.old self.new }
        ensures others { KeepsOthers F.known self.old self.new }
    {
        match self.take_found(alloc) {
            Some(line) => Some(self.read_for(alloc, &line, most)),
            None => self.tell(),
        }
    }
}

impl<F: Folder> Requests for FileRequests<F> {
    ghost recorded = { λ _. silent };

    fn take(&mut self, alloc: Global, most: usize) -> Option<Request>
        ensures taken { IsTakenBy F.known self.old self.new result }
        ensures names { HasSameNames self.old self.new }
        ensures others { KeepsOthers F.known self.old self.new }
    {
        self.look(alloc, most)
    }

    fn answer(&mut self, text: &[u8])
        ensures { IsAnswered F.known F.Replaces self.old self.new text.now }
    {
        let _ = self.folder.replace(&self.asked.answer, Access::Owner, text);
    }
}

/// How many octets of an answer are read.
const MAX_ANSWER: usize = 65_536;

/// The answer to a request, if there is one: a regular file, and no link to one. What is there while the request is, is an older one:
/// whoever takes a request takes that away first.
fn answer_to<F: Folder>(
    folder: &F,
    alloc: Global,
    asked: &AskedFile,
) -> Result<Option<Vec<u8>>, ReadFailure>
    ensures { IfOk result (λ found. IfSome found (λ text. IsAnswer (F.known folder.now (string_bytes asked.now.request.name))
        (F.known folder.now (string_bytes asked.now.answer.name)) text.items)) }
{
    if folder.has(&asked.request.name) || !folder.is_regular(&asked.answer.name) {
        return Ok(None);
    }
    folder.read(alloc, &asked.answer.name, MAX_ANSWER)
}

/// Waits at most so many seconds for the answer to a request.
pub(crate) fn wait_for_answer<F: Folder, R: Net>(
    rt: &R,
    folder: &F,
    alloc: Global,
    asked: &AskedFile,
    seconds: u8,
) -> Result<Option<Vec<u8>>, ReadFailure>
    ensures { IfOk result (λ found. IfSome found (λ text. IsAnswer (F.known folder.now (string_bytes asked.now.request.name))
        (F.known folder.now (string_bytes asked.now.answer.name)) text.items)) }
{
    let Ok(mut pause) = Pause::new(rt, alloc) else {
        return Err(ReadFailure::Unreadable(Obstacle::Other));
    };
    for _ in 0..u32::from(seconds) * LOOKS {
        if let Some(text) = answer_to(folder, alloc, asked)? {
            return Ok(Some(text));
        }
        if pause.wait().is_err() {
            return Err(ReadFailure::Unreadable(Obstacle::Other));
        }
    }
    answer_to(folder, alloc, asked)
}
