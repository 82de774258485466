//! A log with notes between its lines.

ghost use Rattle.std.specs.Prelude.{◌≡◌, ◌≢◌, ◌<◌, ◌≤◌, ◌++◌, ◌∷◌, [], ℕ, Bool, false, List, length, take, IfOk, IsErr, OnErr, OnOk};
ghost use Rattle.std.specs.Io.KnownBytes.{Appends, Keeps, WriteAppends};
ghost use Rattle.gw_addr.specs.Text.{Lacks};
ghost use Rattle.gw_log_words.specs.Noted.{IsAskedAnew, IsBeforeLineFeed, IsNoted, begins_note, ending, held_without_notes, place_after};
ghost use Rattle.gw_log_words.specs.Stamped.{EndsAtMost};
ghost use Rattle.gw_log_words.specs.declared.noted.Place.TheVariants as place;

use crate::lasting::Lasting;
use crate::notes::Notes;
use crate::stamped::first_line;
use gw_script::{OctetSink, WriteFailed, write_whole};
use memchr::memchr;

/// The note of a log that goes on in a new file.
const ANEW: &[u8] = b"log began anew";

/// Where the next octet of a log comes.
#[derive(Clone, Copy, Drop)]
pub enum Place {
    /// A line begins.
    Begin,
    /// Within a note.
    Note,
    /// Within another line.
    Line,
}

/// A log in which notes come between whole lines. A note is a line that begins with `#`, as no other line may. What it holds is
/// seen without the notes.
///
/// ```text
/// # bacgw 0.1.0 began
/// 1 0 1 1:C0A80105BAC0 read dst=100 svc=12 obj=5,2 prop=85 prio=- rule=hide
/// ```
#[derive(Drop)]
pub struct Noted<S> {
    /// What it goes on in.
    pub sink: S,
    /// Where the next octet comes.
    pub place: Place,
}

/// What of a text is before its first line feed.
fn before_line_feed(text: &[u8]) -> &[u8]
    ensures { IsBeforeLineFeed text.now result.now }
{
    match memchr(b'\n', text) {
        Some(at) => &text[..at],
        None => text,
    }
}

impl<S: OctetSink> Noted<S> {
    /// The log that goes on in this sink, at which a line begins.
    pub fn new(sink: S) -> Self
        ensures sink { result.sink ≡ sink }
        ensures begins { result.place ≡ place.Begin }
    {
        Noted {
            sink,
            place: Place::Begin,
        }
    }

    /// Writes one octet, after which the next one comes at this place.
    fn write_octet(&mut self, octet: u8, place: Place) -> Result<(), WriteFailed>
        ensures ok { OnOk result (Appends (S.held self.old.sink) (S.held self.new.sink) (octet ∷ [])) }
        ensures err { OnErr result (Keeps (S.held self.old.sink) (S.held self.new.sink)) }
        ensures place { OnOk result (self.new.place ≡ place) }
        ensures still { OnErr result (self.new.place ≡ self.old.place) }
    {
        self.sink.write_octets(&[octet])?;
        self.place = place;
        Ok(())
    }

    /// Ends a note that was written in part, so that a line begins. `WriteFailed` if another line has begun, or a write failed.
    fn begin_line(&mut self) -> Result<(), WriteFailed>
        ensures ok { OnOk result (Appends (S.held self.old.sink) (S.held self.new.sink) (ending self.old.place)) }
        ensures begins { OnOk result (self.new.place ≡ place.Begin) }
        ensures keeps { Keeps (held_without_notes self.old.place (S.held self.old.sink))
            (held_without_notes self.new.place (S.held self.new.sink)) }
        ensures between { self.old.place ≡ place.Line → IsErr result }
    {
        match self.place {
            Place::Begin => Ok(()),
            Place::Note => self.write_octet(b'\n', Place::Begin),
            Place::Line => Err(WriteFailed),
        }
    }

    /// Begins a note.
    fn begin_note(&mut self) -> Result<(), WriteFailed>
        requires { self.old.place ≡ place.Begin }
        ensures ok { OnOk result (Appends (S.held self.old.sink) (S.held self.new.sink) (35 ∷ [])) }
        ensures within { OnOk result (self.new.place ≡ place.Note) }
        ensures keeps { Keeps (held_without_notes self.old.place (S.held self.old.sink))
            (held_without_notes self.new.place (S.held self.new.sink)) }
    {
        self.write_octet(b'#', Place::Note)
    }

    /// Writes some words of a note.
    fn write_words(&mut self, words: &[u8]) -> Result<(), WriteFailed>
        requires within { self.old.place ≡ place.Note }
        requires lacks { Lacks 10 words.now }
        ensures ok { OnOk result (Appends (S.held self.old.sink) (S.held self.new.sink) words.now) }
        ensures within { self.new.place ≡ place.Note }
        ensures keeps { Keeps (held_without_notes self.old.place (S.held self.old.sink))
            (held_without_notes self.new.place (S.held self.new.sink)) }
    {
        write_whole(&mut self.sink, words)
    }

    /// Ends a note.
    fn end_note(&mut self) -> Result<(), WriteFailed>
        requires { self.old.place ≡ place.Note }
        ensures ok { OnOk result (Appends (S.held self.old.sink) (S.held self.new.sink) (10 ∷ [])) }
        ensures begins { OnOk result (self.new.place ≡ place.Begin) }
        ensures keeps { Keeps (held_without_notes self.old.place (S.held self.old.sink))
            (held_without_notes self.new.place (S.held self.new.sink)) }
    {
        self.write_octet(b'\n', Place::Begin)
    }

    /// Writes a note: `# `, what of the text is before its first line feed, and a line feed. What is held stays, also if that
    /// fails. `WriteFailed` if a line has begun, and nothing is written then; or if a write failed.
    pub fn note(&mut self, text: &[u8]) -> Result<(), WriteFailed>
        ensures note { OnOk result (IsNoted self.old.place (S.held self.old.sink) text.now (S.held self.new.sink)) }
        ensures begins { OnOk result (self.new.place ≡ place.Begin) }
        ensures keeps { Keeps (held_without_notes self.old.place (S.held self.old.sink))
            (held_without_notes self.new.place (S.held self.new.sink)) }
        ensures between { self.old.place ≡ place.Line → IsErr result }
    {
        self.begin_line()?;
        self.begin_note()?;
        self.write_words(b" ")?;
        self.write_words(before_line_feed(text))?;
        self.end_note()
    }

    /// Whether an octet begins a note if it is written now.
    fn begins_note(&self, first: u8) -> bool
        ensures { result ≡ begins_note self.now.place first }
    {
        match self.place {
            Place::Begin => first == b'#',
            _ => false,
        }
    }

    /// Writes some octets of a line that isn't a note.
    fn write_piece(&mut self, piece: &[u8]) -> Result<usize, WriteFailed>
        requires some { 0 < length piece.now }
        requires ends { EndsAtMost piece.now }
        requires other { self.old.place ≢ place.Note }
        ensures bound { IfOk result (λ n. n ≤ length piece.now) }
        ensures some { IfOk result (λ n. 0 < n) }
        ensures octets { WriteAppends (held_without_notes self.old.place (S.held self.old.sink))
            (held_without_notes self.new.place (S.held self.new.sink)) result piece.now }
        ensures written { IfOk result (λ n. Appends (S.held self.old.sink) (S.held self.new.sink) (take n piece.now)) }
    {
        if self.begins_note(piece[0]) {
            return Err(WriteFailed);
        }
        let count = self.sink.write_octets(piece)?;
        self.place = place_of(piece[count - 1]);
        Ok(count)
    }
}

impl<S: Notes> Noted<S> {
    /// Writes a note if the log begins anew, in a new file.
    fn note_anew(&mut self) -> Result<(), WriteFailed>
        requires { self.old.place ≡ place.Begin }
        ensures anew { OnOk result (IsAskedAnew S.held S.BeginsAnew self.old.sink self.new.sink) }
        ensures begins { OnOk result (self.new.place ≡ place.Begin) }
        ensures keeps { Keeps (held_without_notes self.old.place (S.held self.old.sink))
            (held_without_notes self.new.place (S.held self.new.sink)) }
    {
        if self.sink.begins_anew() {
            self.note(ANEW)
        } else {
            Ok(())
        }
    }

    /// Ends a note that was written in part, and where a line begins writes a note if the log begins anew.
    fn prepare_line(&mut self) -> Result<(), WriteFailed>
        ensures anew { self.old.place ≡ place.Begin →
            OnOk result (IsAskedAnew S.held S.BeginsAnew self.old.sink self.new.sink) }
        ensures other { OnOk result (self.new.place ≢ place.Note) }
        ensures keeps { Keeps (held_without_notes self.old.place (S.held self.old.sink))
            (held_without_notes self.new.place (S.held self.new.sink)) }
    {
        match self.place {
            Place::Line => Ok(()),
            Place::Note => {
                self.end_note()?;
                self.note_anew()
            }
            Place::Begin => self.note_anew(),
        }
    }

    /// Writes some octets of a line that isn't a note, after the end of a note that was written in part, and after a note if the
    /// log begins anew. A line feed is nowhere but at their end. `WriteFailed` if a write failed, or the line would begin with `#`.
    pub fn write_line(&mut self, piece: &[u8]) -> Result<usize, WriteFailed>
        requires some { 0 < length piece.now }
        requires ends { EndsAtMost piece.now }
        ensures bound { IfOk result (λ n. n ≤ length piece.now) }
        ensures some { IfOk result (λ n. 0 < n) }
        ensures anew { self.old.place ≡ place.Begin → IfOk result (λ n. (sink : S) ×
            IsAskedAnew S.held S.BeginsAnew self.old.sink sink × Appends (S.held sink) (S.held self.new.sink) (take n piece.now)) }
        ensures octets { WriteAppends (held_without_notes self.old.place (S.held self.old.sink))
            (held_without_notes self.new.place (S.held self.new.sink)) result piece.now }
    {
        self.prepare_line()?;
        self.write_piece(piece)
    }
}

/// Where what comes after an octet of a line that isn't a note comes.
fn place_of(octet: u8) -> Place
    ensures { result ≡ place_after place.Line octet }
{
    if octet == b'\n' {
        Place::Begin
    } else {
        Place::Line
    }
}

impl<S: Drop> Noted<S> {
    /// What it went on in.
    pub fn into_sink(self) -> S
        ensures { result ≡ self.sink }
    {
        let Noted { sink, .. } = self;
        sink
    }
}

impl<S: Notes> OctetSink for Noted<S> {
    ghost held = { λ log. held_without_notes log.place (S.held log.sink) };

    ghost NeverFails = { λ _. ⊥ };

    fn write_octets(&mut self, text: &[u8]) -> Result<usize, WriteFailed> {
        if text.is_empty() {
            return Ok(0);
        }
        self.write_line(first_line(text))
    }
}

impl<S: Notes> Lasting for Noted<S> {
    ghost IsLasting = { λ log. S.IsLasting log.sink };

    ghost Syncs = { λ was result is. S.Syncs was.sink result is.sink };

    fn sync(&mut self) -> Result<(), WriteFailed> {
        self.sink.sync()
    }
}

impl<S: Notes> Notes for Noted<S> {
    ghost Takes = { λ was text result is. OnOk result (IsNoted was.place (S.held was.sink) text (S.held is.sink)) };

    fn take_note(&mut self, text: &[u8]) -> Result<(), WriteFailed> {
        self.note(text)
    }

    ghost BeginsAnew = { λ was anew is. (anew ≡ false) × (is ≡ was) };

    fn begins_anew(&mut self) -> bool {
        false
    }
}
