//! On which lines of a text the tables of a list begin.
ghost use Rattle.std.specs.Prelude.{◌≡◌, slice_get, option_map, IfOk, OnOk};
ghost use Rattle.toml.specs.View.{table_view, view};
ghost use Rattle.gw_policy_text.specs.Document.{document};
ghost use Rattle.gw_policy_text.specs.keys.Value.{list_in};
ghost use Rattle.gw_policy_text.specs.Lines.{all_read, begins_with, count_in, cut_there, ended, has_one, has_one_in, is_document, is_one, is_table};
ghost use Rattle.gw_policy_text.specs.Lines.{lines_at, listed_at, may_begin, next, read_on, restarted, start, table_count, table_line, table_lines};
ghost use Rattle.gw_policy_text.specs.internal.Lines.{seen};

use crate::document;
use crate::keys::value::{list, member};
use gw_configuration::{ConfigFault, Place};
use std::alloc::{AllocError, Global};
use toml::{Table, Value};

/// How many octets may be looked at in all before each bracket is taken for a part of a value.
const MAX_LOOKED_AT: usize = 8_388_608;

/// The lines, from 1, on which the tables of the rules of a text begin, in their order; `tables` is how many it has. None if one of
/// them isn't written in double brackets on a line of its own. An `Err` if there is no memory.
pub fn table_lines(alloc: Global, tables: u16, text: &[u8]) -> Result<Vec<u32>, AllocError>
    ensures { IfOk result (λ lines. lines.items ≡ table_lines tables text.now) }
{
    lines_at(alloc, "rule", usize::from(tables), text)
}

/// The line, from 1, on which the table of a place begins, if it is one of a list; `top` is the whole document of the text. None if
/// one of that list isn't written in double brackets on a line of its own. An `Err` if there is no memory.
pub(crate) fn table_line(
    alloc: Global,
    place: Place,
    top: &Table,
    text: &[u8],
) -> Result<Option<u32>, AllocError>
    ensures { IfOk result (λ line. line ≡ table_line place (table_view top.now) text.now) }
{
    let Some((key, position)) = listed_at(place) else {
        return Ok(None);
    };
    let lines = lines_at(alloc, key, table_count(top, key), text)?;
    Ok(lines.get(position).copied())
}

/// The list of a place's table, by its key, and where in it the table is.
fn listed_at(place: Place) -> Option<(&'static str, usize)>
    ensures { option_map (λ it. (it.0.now, it.1)) result ≡ listed_at place }
{
    match place {
        Place::Text | Place::Top | Place::Device | Place::Peer { .. } => None,
        Place::Port(port) => Some(("port", port)),
        Place::Route(route) => Some(("route", route)),
        Place::Object(object) => Some(("object", object)),
        Place::Set(set) => Some(("set", set)),
        Place::Rule(rule) => Some(("rule", rule)),
        Place::Assertion(assertion) => Some(("assert", assertion)),
    }
}

/// How many tables the list at a key has.
fn table_count(top: &Table, key: &str) -> usize
    ensures { result ≡ table_count key.now (table_view top.now) }
{
    match member(top, key) {
        Some(value) => count_in(value),
        None => 0,
    }
}

#[tactic(auto, using(crate::proofs::keys_lemmas::Values::length_view))]
fn count_in(value: &Value) -> usize
    ensures { result ≡ count_in (list_in (view value.now)) }
{
    match list(value) {
        Ok(tables) => tables.len(),
        Err(_) => 0,
    }
}

/// The lines of the tables of the list at a key.
fn lines_at(alloc: Global, key: &str, tables: usize, text: &[u8]) -> Result<Vec<u32>, AllocError>
    ensures { IfOk result (λ lines. lines.items ≡ lines_at key.now tables text.now) }
{
    let mut cut = Cut::of_text(alloc, key, text)?;
    cut.end_piece(alloc)?;
    let lines = cut.into_found();
    if lines.len() == tables {
        Ok(lines)
    } else {
        Ok(Vec::new(alloc))
    }
}

/// A text that is read octet by octet, and cut before each table.
struct Cut<'a> {
    /// The key of the list whose tables are looked for.
    key: &'a str,
    /// The line that was come to, from 1.
    line: u32,
    /// Whether that has only blanks so far.
    is_blank: bool,
    /// The piece since the last cut.
    piece: Vec<u8>,
    /// The line on which it begins.
    began: u32,
    /// How many octets the pieces had of which it was asked whether they are documents.
    looked_at: usize,
    /// The lines of the pieces before it that are a table of the list.
    found: Vec<u32>,
}

// By hand: a derived one is proved part by part wherever one is dropped (docs/GATE.md).
impl Drop for Cut<'_> {
    fn drop(self) {
        let Cut {
            key: _,
            line: _,
            is_blank: _,
            piece: _,
            began: _,
            looked_at: _,
            found: _,
        } = self;
    }
}

impl<'a> Cut<'a> {
    /// A text that was read whole.
    fn of_text(alloc: Global, key: &'a str, text: &[u8]) -> Result<Cut<'a>, AllocError>
        ensures { IfOk result (λ cut. seen cut ≡ all_read (start key.now) text.now) }
    {
        let mut cut = Cut::new(alloc, key);
        for octet in text {
            cut.add(alloc, *octet)?;
        }
        Ok(cut)
    }

    /// A text of which nothing was read.
    fn new(alloc: Global, key: &'a str) -> Cut<'a>
        ensures { seen result ≡ start key.now }
    {
        Cut {
            key,
            line: 1,
            is_blank: true,
            piece: Vec::new(alloc),
            began: 1,
            looked_at: 0,
            found: Vec::new(alloc),
        }
    }

    /// Reads an octet.
    #[tactic(auto, unfolding(crate::specs::Lines::next))]
    fn add(&mut self, alloc: Global, octet: u8) -> Result<(), AllocError>
        ensures { OnOk result (seen self.new ≡ next (seen self.old) octet) }
    {
        if self.may_begin(octet) {
            self.cut_there(alloc)?;
        }
        self.push(octet)
    }

    /// Whether a table may begin with this octet.
    fn may_begin(&self, octet: u8) -> bool
        ensures { result ≡ may_begin (seen self.now) octet }
    {
        self.is_blank && octet == b'[' && self.looked_at < MAX_LOOKED_AT
    }

    /// Begins another piece, if what was read since the last cut is a document.
    fn cut_there(&mut self, alloc: Global) -> Result<(), AllocError>
        ensures { OnOk result (seen self.new ≡ cut_there (seen self.old)) }
    {
        self.looked_at = self.looked_at.saturating_add(self.piece.len());
        if is_document(alloc, &self.piece)? {
            self.restart(alloc)
        } else {
            Ok(())
        }
    }

    /// Begins another piece.
    fn restart(&mut self, alloc: Global) -> Result<(), AllocError>
        ensures { OnOk result (seen self.new ≡ restarted (seen self.old)) }
    {
        self.end_piece(alloc)?;
        self.piece.clear();
        self.began = self.line;
        Ok(())
    }

    /// Adds the line of the piece, if that is a table of the list.
    fn end_piece(&mut self, alloc: Global) -> Result<(), AllocError>
        ensures { OnOk result (seen self.new ≡ ended (seen self.old)) }
    {
        if is_table(alloc, self.key, &self.piece)? {
            self.found.push(self.began)?;
        }
        Ok(())
    }

    /// Adds an octet to the piece.
    fn push(&mut self, octet: u8) -> Result<(), AllocError>
        ensures { OnOk result (seen self.new ≡ read_on (seen self.old) octet) }
    {
        self.piece.push(octet)?;
        self.is_blank = octet == b'\n' || (self.is_blank && (octet == b' ' || octet == b'\t'));
        if octet == b'\n' {
            self.line = self.line.saturating_add(1);
        }
        Ok(())
    }

    /// The lines that were found.
    fn into_found(self) -> Vec<u32>
        ensures { result ≡ self.entry.found }
    {
        let Cut {
            key: _,
            line: _,
            is_blank: _,
            piece: _,
            began: _,
            looked_at: _,
            found,
        } = self;
        found
    }
}

/// Whether a piece of a text is a document by itself.
fn is_document(alloc: Global, piece: &[u8]) -> Result<bool, AllocError>
    ensures { IfOk result (λ yes. yes ≡ is_document piece.now) }
{
    match document(alloc, piece) {
        Ok(_) => Ok(true),
        Err(ConfigFault::Memory) => Err(AllocError),
        Err(_) => Ok(false),
    }
}

/// Whether a piece begins with a bracket and is a document by itself that has one table of the list at a key.
fn is_table(alloc: Global, key: &str, piece: &[u8]) -> Result<bool, AllocError>
    ensures { IfOk result (λ yes. yes ≡ is_table key.now piece.now) }
{
    if begins_with_bracket(piece) {
        has_one_in(alloc, key, piece)
    } else {
        Ok(false)
    }
}

fn begins_with_bracket(piece: &[u8]) -> bool
    ensures { result ≡ begins_with 91 (slice_get piece.now 0) }
{
    match piece.first() {
        Some(octet) => *octet == b'[',
        None => false,
    }
}

fn has_one_in(alloc: Global, key: &str, piece: &[u8]) -> Result<bool, AllocError>
    ensures { IfOk result (λ yes. yes ≡ has_one_in key.now (document piece.now)) }
{
    match document(alloc, piece) {
        Ok(top) => Ok(has_one(&top, key)),
        Err(ConfigFault::Memory) => Err(AllocError),
        Err(_) => Ok(false),
    }
}

/// Whether a document has one table of the list at a key.
fn has_one(top: &Table, key: &str) -> bool
    ensures { result ≡ has_one key.now (table_view top.now) }
{
    match member(top, key) {
        Some(value) => is_one(value),
        None => false,
    }
}

/// Whether a value is a list of one.
#[tactic(auto, using(crate::proofs::keys_lemmas::Values::length_view))]
fn is_one(value: &Value) -> bool
    ensures { result ≡ is_one (list_in (view value.now)) }
{
    match list(value) {
        Ok(tables) => tables.len() == 1,
        Err(_) => false,
    }
}
