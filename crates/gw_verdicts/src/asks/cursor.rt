//! Where in the lines of a text the reading of its asks is.

ghost use Rattle.std.specs.Prelude.{◌≡◌, ◌≤◌, ◌<◌, ◌++◌, [], ℕ, List, Option, Some, length, take, IfOk, true, false};
ghost use Rattle.gw_script.specs.Reader.{BeginsLong, IsNextLine};
ghost use Rattle.gw_script.specs.declared.reader.NextLine.TheVariants.{Line};
ghost use Rattle.gw_verdicts.specs.declared.asks.cursor.LinePlace.TheVariants as place;
ghost use Rattle.gw_verdicts.specs.asks.Position.{GivesFront, IsBetween, IsDone, rest_at};

use crate::asks::nothing::Nothing;
use gw_log_words::ask_front;
use gw_script::{LineReader, NextLine, OctetSource, ReadFailed};
use std::marker::Model;

/// How many octets a line has at most, without its line feed.
const MAX_LINE: usize = 4096;

/// Where in a line the reading is.
#[derive(Clone, Copy)]
pub(crate) enum LinePlace {
    /// At its start.
    Start,
    /// In a line of more than 4096 octets, which is passed over.
    Passed,
    /// In the own fields of a line.
    Fields {
        /// How many of its octets were given or were in front.
        next: usize,
        /// How many octets it has without its line feed.
        len: usize,
        /// How many it has with it.
        span: usize,
    },
}

/// The lines that are read, the place in the first of them, and how many were passed over.
#[derive(Drop)]
pub(crate) struct Cursor {
    lines: LineReader,
    place: LinePlace,
    unread: u64,
}

impl Model for Cursor {
    ghost use Rattle.gw_verdicts.specs.asks.Position.{IsPlaced, Position};

    ghost Value = { Position };

    ghost view = { λ c. record { lines = c.lines; place = c.place; unread = c.unread } };

    ghost invariant = { λ c. IsPlaced c.place c.lines.unread };
}

/// How many octets of a long line are at hand, up to 4096.
fn long_front(lines: &mut LineReader) -> usize
    ensures same { lines.new.unread ≡ lines.old.unread }
    ensures most { result ≤ 4096 }
    ensures within { result ≤ length lines.new.unread }
{
    match lines.find_line(&mut Nothing) {
        Ok(NextLine::Long) => MAX_LINE,
        Ok(NextLine::Line { len, .. }) => len,
        Ok(NextLine::End) | Err(_) => 0,
    }
}

impl Cursor {
    /// At the start of a text.
    pub(crate) fn new() -> Self
        ensures lines { result.lines.unread ≡ [] }
        ensures place { result.place ≡ place.Start }
        ensures unread { result.unread ≡ 0 }
    {
        Cursor {
            lines: LineReader::new(),
            place: LinePlace::Start,
            unread: 0,
        }
    }

    /// How many lines were passed over.
    pub(crate) fn unread(&self) -> u64
        ensures { result ≡ self.now.unread }
    {
        self.unread
    }

    /// Gives octets of the line's own fields, or the line feed after them, as many as there is room for. It answers how many:
    /// none if no such line is at hand.
    pub(crate) fn give(&mut self, buffer: &mut [u8]) -> usize
        ensures bound { result ≤ length buffer.new }
        ensures front { (left : Option (List ℕ)) →
            GivesFront (rest_at self.old left) (rest_at self.new left) (take result buffer.new) }
    {
        let LinePlace::Fields { next, len, span } = self.place else {
            return 0;
        };
        if buffer.is_empty() {
            return 0;
        }
        let fields = &self.lines.front(len)[next..];
        if fields.is_empty() {
            buffer[0] = b'\n';
            self.lines.consume(span);
            self.place = LinePlace::Start;
            return 1;
        }
        let count = fields.len().min(buffer.len());
        buffer[..count].copy_from_slice(&fields[..count]);
        self.place = LinePlace::Fields {
            next: next + count,
            len,
            span,
        };
        count
    }

    /// Goes on to the next line, or within a long one. It answers whether there was one. `ReadFailed` if a read failed.
    pub(crate) fn go_on<S: OctetSource>(&mut self, source: &mut S) -> Result<bool, ReadFailed>
        ensures kept { GivesFront (rest_at self.old (S.left source.old)) (rest_at self.new (S.left source.new)) [] }
        ensures done { IfOk result (λ goes. goes ≡ false → IsDone (rest_at self.new (S.left source.new)) self.new.unread) }
    {
        if let LinePlace::Fields { .. } = self.place {
            return Ok(true);
        }
        match self.lines.find_line(source)? {
            NextLine::Line { len, span } => {
                self.take_line(len, span);
                Ok(true)
            }
            NextLine::Long => {
                self.pass_long();
                Ok(true)
            }
            NextLine::End => Ok(false),
        }
    }

    /// Takes the line at hand, of so many octets without its line feed and with it.
    fn take_line(&mut self, len: usize, span: usize)
        requires between { IsBetween self.old.place }
        requires most { len ≤ 4096 }
        requires within { len ≤ length self.old.lines.unread }
        requires whole { span ≤ length self.old.lines.unread }
        ensures { (rest : List ℕ) → IsNextLine self.old.lines.unread rest (Line len span) →
            GivesFront (rest_at self.old (Some rest)) (rest_at self.new (Some rest)) [] }
    {
        if let LinePlace::Passed = self.place {
            self.lines.consume(span);
            self.place = LinePlace::Start;
            return;
        }
        match ask_front(self.lines.front(len)) {
            Some(next) => self.place = LinePlace::Fields { next, len, span },
            None => {
                self.lines.consume(span);
                self.unread = self.unread.saturating_add(1);
            }
        }
    }

    /// Passes over what is at hand of a line of more than 4096 octets.
    fn pass_long(&mut self)
        requires { IsBetween self.old.place }
        ensures { (rest : List ℕ) → BeginsLong (self.old.lines.unread ++ rest) →
            GivesFront (rest_at self.old (Some rest)) (rest_at self.new (Some rest)) [] }
    {
        let count = long_front(&mut self.lines);
        self.lines.consume(count);
        if let LinePlace::Start = self.place {
            self.place = LinePlace::Passed;
            self.unread = self.unread.saturating_add(1);
        }
    }
}
