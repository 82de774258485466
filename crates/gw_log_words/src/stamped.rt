//! A log whose lines begin with the time at which they came.

ghost use Rattle.std.specs.Prelude.{◌≡◌, ◌<◌, ◌≤◌, ℕ, List, Option, Bool, length, take, codes, true, false, IfOk, IsOk, OnErr, OnOk};
ghost use Rattle.std.specs.Io.KnownBytes.{Appends, Keeps, WriteAppends};
ghost use Rattle.gw_log_words.specs.declared.moment.Moment.{Moment};
ghost use Rattle.gw_log_words.specs.Moment.{moment_text};
ghost use Rattle.gw_addr.specs.Text.{Lacks};
ghost use Rattle.gw_log_words.specs.Stamped.{BeginsIf, EndsAtMost, IsWrittenStamped, ends_in_stamp, held_without, stamp_text, stamp_word};

use crate::calendar::Calendar;
use crate::lasting::Lasting;
use crate::moment::Moment;
use crate::notes::Notes;
use gw_script::{OctetSink, WriteFailed, write_whole};
use memchr::memchr;
use std::alloc::{AllocError, Global};

/// A log that writes the time in front of each line: the moment at which the line's first octets came, as RFC 3339 has
/// it, and a space. What it holds is seen without these stamps.
///
/// ```text
/// 2026-11-27T08:00:00Z 1 0 1 1:C0A80105BAC0 read dst=100 svc=12 obj=5,2 prop=85 prio=- rule=hide
/// ```
///
/// If the time isn't known the stamp is `-`.
#[derive(Drop)]
pub struct Stamped<S, C> {
    alloc: Global,
    /// What it goes on in.
    pub sink: S,
    /// What gives the time.
    pub calendar: C,
    /// Whether the next octet begins a line, or a stamp is written in part.
    pub in_stamp: bool,
}

/// The word of a stamp.
fn stamp_word(alloc: Global, at: Option<Moment>) -> Result<Vec<u8>, AllocError>
    ensures { IfOk result (λ word. word.items ≡ stamp_word at) }
{
    match at {
        Some(moment) => {
            let text = moment.to_string(alloc)?;
            Vec::from_slice(alloc, text.as_bytes())
        }
        None => Vec::from_slice(alloc, b"-"),
    }
}

/// The word of a stamp, which has no space. An `Err` if there is no memory for it.
fn spaceless_word(alloc: Global, at: Option<Moment>) -> Result<Vec<u8>, WriteFailed>
    ensures word { IfOk result (λ word. word.items ≡ stamp_word at) }
    ensures spaceless { IfOk result (λ word. Lacks 32 word.items) }
{
    match stamp_word(alloc, at) {
        // No moment has a space in its text; it is looked for, since the stamp ends with the first one.
        Ok(word) if memchr(b' ', &word).is_none() => Ok(word),
        Ok(_) | Err(_) => Err(WriteFailed),
    }
}

/// The front of a text up to its first line feed, with it; the whole text if it has none.
pub(crate) fn first_line(text: &[u8]) -> &[u8]
    ensures front { result.now ≡ take (length result.now) text.now }
    ensures ends { EndsAtMost result.now }
    ensures some { 0 < length text.now → 0 < length result.now }
    ensures most { length result.now ≤ length text.now }
{
    match memchr(b'\n', text) {
        Some(place) => &text[..place + 1],
        None => text,
    }
}

impl<S: OctetSink, C: Calendar> Stamped<S, C> {
    /// The log that goes on in this sink, at which a line begins, by this clock.
    pub fn new(alloc: Global, sink: S, calendar: C) -> Self
        ensures sink { result.sink ≡ sink }
        ensures calendar { result.calendar ≡ calendar }
        ensures begins { result.in_stamp ≡ true }
    {
        Stamped {
            alloc,
            sink,
            calendar,
            in_stamp: true,
        }
    }

    /// Writes the stamp of a line.
    fn write_stamp(&mut self) -> Result<(), WriteFailed>
        ensures stamp { OnOk result ((at : Option Moment) × C.Shows self.new.calendar at
            × Lacks 32 (stamp_word at) × Appends (S.held self.old.sink) (S.held self.new.sink) (stamp_text at)) }
        ensures within { OnOk result (self.new.in_stamp ≡ false) }
        ensures front { OnErr result ((front : List ℕ) × Lacks 32 front
            × Appends (S.held self.old.sink) (S.held self.new.sink) front) }
        ensures still { OnErr result (self.new.in_stamp ≡ self.old.in_stamp) }
    {
        let at = self.calendar.moment();
        let word = spaceless_word(self.alloc, at)?;
        write_whole(&mut self.sink, &word)?;
        self.sink.write_octets(b" ")?;
        self.in_stamp = false;
        Ok(())
    }

    /// Writes some octets of a line that has begun.
    fn write_piece(&mut self, piece: &[u8]) -> Result<usize, WriteFailed>
        requires some { 0 < length piece.now }
        requires ends { EndsAtMost piece.now }
        requires within { self.old.in_stamp ≡ false }
        ensures bound { IfOk result (λ n. n ≤ length piece.now) }
        ensures some { IfOk result (λ n. 0 < n) }
        ensures octets { WriteAppends (S.held self.old.sink) (S.held self.new.sink) result piece.now }
        ensures ends { IfOk result (λ n. self.new.in_stamp ≡ ends_in_stamp false (take n piece.now)) }
        ensures still { OnErr result (self.new.in_stamp ≡ false) }
        ensures calendar { self.new.calendar ≡ self.old.calendar }
    {
        let count = self.sink.write_octets(piece)?;
        self.in_stamp = piece[count - 1] == b'\n';
        Ok(count)
    }

    /// Writes some octets of a line, after its stamp if it begins. A line feed is nowhere but at their end. `WriteFailed` if
    /// a write failed, or there is no memory for the stamp.
    pub fn write_line(&mut self, piece: &[u8]) -> Result<usize, WriteFailed>
        requires some { 0 < length piece.now }
        requires ends { EndsAtMost piece.now }
        ensures bound { IfOk result (λ n. n ≤ length piece.now) }
        ensures some { IfOk result (λ n. 0 < n) }
        ensures octets { WriteAppends (held_without self.old.in_stamp (S.held self.old.sink))
            (held_without self.new.in_stamp (S.held self.new.sink)) result piece.now }
        ensures stamped { IfOk result (λ n. IsWrittenStamped (C.Shows self.new.calendar) self.old.in_stamp
            (S.held self.old.sink) (S.held self.new.sink) (take n piece.now)) }
    {
        if self.in_stamp {
            self.write_stamp()?;
        }
        self.write_piece(piece)
    }
}

impl<S: Drop, C: Drop> Stamped<S, C> {
    /// What it went on in.
    pub fn into_sink(self) -> S
        ensures { result ≡ self.sink }
    {
        let Stamped { sink, .. } = self;
        sink
    }
}

impl<S: OctetSink, C: Calendar> OctetSink for Stamped<S, C> {
    ghost held = { λ log. held_without log.in_stamp (S.held log.sink) };

    ghost NeverFails = { λ _. ⊥ };

    fn write_octets(&mut self, text: &[u8]) -> Result<usize, WriteFailed> {
        if text.is_empty() {
            return Ok(0);
        }
        self.write_line(first_line(text))
    }
}

impl<S: Notes, C: Calendar> Stamped<S, C> {
    /// Goes on in a new file if a line begins and that of the log was moved or removed, and answers whether it did.
    fn follow_file(&mut self) -> bool
        ensures begins { BeginsIf (λ anew. S.BeginsAnew self.old.sink anew self.new.sink) self.old.in_stamp result }
        ensures keeps { Keeps (held_without self.old.in_stamp (S.held self.old.sink)) (held_without self.new.in_stamp (S.held self.new.sink)) }
    {
        if self.in_stamp {
            self.sink.begins_anew()
        } else {
            false
        }
    }
}

impl<S: Lasting, C: Calendar> Lasting for Stamped<S, C> {
    ghost IsLasting = { λ log. S.IsLasting log.sink };

    ghost Syncs = { λ was result is. S.Syncs was.sink result is.sink };

    fn sync(&mut self) -> Result<(), WriteFailed> {
        self.sink.sync()
    }
}

impl<S: Notes, C: Calendar> Notes for Stamped<S, C> {
    ghost Takes = { λ was _ _ is. is ≡ was };

    ghost BeginsAnew = { λ was anew is. BeginsIf (λ anew. S.BeginsAnew was.sink anew is.sink) was.in_stamp anew };

    fn take_note(&mut self, _text: &[u8]) -> Result<(), WriteFailed> {
        Ok(())
    }

    fn begins_anew(&mut self) -> bool {
        self.follow_file()
    }
}
