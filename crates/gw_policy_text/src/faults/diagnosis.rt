//! Where the fault of a configuration is, for an operator.
ghost use Rattle.std.specs.Prelude.{◌≡◌, ◌≢◌, ◌≤◌, ◌++◌, ◌==◌, ℕ, List, Err, IfOk, OnOk, codes, count_by, drop, length, not, reverse, take};
ghost use Rattle.std.specs.List.{take_while};
ghost use Rattle.toml.specs.Data.{Members};
ghost use Rattle.toml.specs.View.{table_view};
ghost use Rattle.gw_configuration.specs.Configuration.{Configuration};
ghost use Rattle.gw_policy_text.specs.Document.{configuration_of};
ghost use Rattle.gw_policy_text.specs.faults.Explanation.{Explains, ExplainsText, IsNoDocument, IsTextWanted, help_words, is_bracket, position_words};
ghost use Rattle.gw_policy_text.specs.faults.Wanted.{wanted_words};
ghost use Rattle.gw_configuration.specs.Located.{Find, Located as PlainLocated, located_view, of_text};
ghost use Rattle.gw_configuration.specs.declared.fault.ConfigFault.TheVariants.{Memory};

use crate::faults::explanation::Explanation;
use crate::faults::reason::put_wanted;
use crate::faults::value::{put_fault, value_at};
use crate::faults::words::{put_numbered, put_place};
use crate::lines::table_line;
use crate::{MAX_OCTETS, config_of, document};
use gw_configuration::{ConfigFault, Located};
use std::alloc::{AllocError, Global};
use toml::Table;
use toml::de::Error;

/// The line that says where this fault of a text is, the one that `read_config` answered for it: the
/// table, its number from 1, its name and the line on which it begins, the key, of a list the item, and what is wrong there, as in
/// `port 2 (line 17): network: 1 is named twice`. `None` where the first fault of the text isn't this one.
pub fn explain(
    alloc: Global,
    text: &[u8],
    fault: ConfigFault,
) -> Result<Option<Explanation>, AllocError>
    ensures { IfOk result (λ line. ExplainsText text.now fault line) }
{
    if text.len() > MAX_OCTETS {
        return of_text(alloc, text, ConfigFault::TooMany, fault);
    }
    match document(alloc, text) {
        Ok(top) => in_tables(alloc, &top, text, fault),
        Err(ConfigFault::Memory) => Err(AllocError),
        Err(fault_named) => of_text(alloc, text, fault_named, fault),
    }
}

/// Of a text that has this fault as a whole.
fn of_text(
    alloc: Global,
    text: &[u8],
    fault_named: ConfigFault,
    fault: ConfigFault,
) -> Result<Option<Explanation>, AllocError>
    ensures { (found : Find Configuration) (top : Members) → found ≡ Err (of_text fault_named) →
        IfOk result (λ line. Explains text.now found top (λ _ words. IsTextWanted text.now words) fault line) }
{
    if fault_named != fault {
        return Ok(None);
    }
    let wanted = text_wanted(alloc, text)?;
    let mut line = Vec::from_slice(alloc, b"the text: ")?;
    put_fault(&mut line, fault, None)?;
    line.extend_from_slice(&wanted)?;
    Ok(Some(Explanation::of_words(alloc, &line)?))
}

/// What a text as a whole lacks: it is too long, or no document.
fn text_wanted(alloc: Global, text: &[u8]) -> Result<Vec<u8>, AllocError>
    ensures { IfOk result (λ words. IsTextWanted text.now words.items) }
{
    if text.len() > MAX_OCTETS {
        return limit_words(alloc);
    }
    match str::from_utf8(text) {
        Ok(document) => no_document_words(alloc, document),
        Err(_) => Vec::from_slice(alloc, b"is no TOML document, since it isn't UTF-8"),
    }
}

/// How long a text may be.
fn limit_words(alloc: Global) -> Result<Vec<u8>, AllocError>
    ensures { IfOk result (λ words. words.items ≡ codes "at most 1048576 octets") }
{
    Vec::from_slice(alloc, b"at most 1048576 octets")
}

/// That a text is no document, where, and why by the words of the reader. `AllocError` where memory was
/// refused, or the text is a document.
fn no_document_words(alloc: Global, document: &str) -> Result<Vec<u8>, AllocError>
    ensures { IfOk result (λ words. IsNoDocument document.now words.items) }
{
    let Err(error) = toml::table_from_str(alloc, document) else {
        return Err(AllocError);
    };
    let Some(span) = error.span() else {
        return Err(AllocError);
    };
    error_words(alloc, document.as_bytes(), span.start, error.message())
}

/// Whether it begins with a bracket, as a table does.
fn is_bracket(rest: &[u8]) -> bool
    ensures { result ≡ is_bracket rest.now }
{
    match rest {
        [first, ..] => *first == b'[',
        [] => false,
    }
}

/// What to write in the place of what is there twice.
fn help_words(reason: &str, rest: &[u8]) -> &'static [u8]
    ensures { result.now ≡ help_words reason.now rest.now }
{
    if reason != "duplicate key" {
        return b"";
    }
    if is_bracket(rest) {
        b"; of several tables each is in double brackets, as [[rule]], and what is of a port, as [[port.peer]], comes after its [[port]]"
    } else {
        b"; each key is given once in a table"
    }
}

/// That a text is no document after so many octets, and why.
fn error_words(
    alloc: Global,
    text: &[u8],
    place: usize,
    reason: &str,
) -> Result<Vec<u8>, AllocError>
    requires { place ≤ length text.now }
    ensures { IfOk result (λ words. words.items ≡
        codes "is no TOML document" ++ position_words (take place text.now) ++ codes ": " ++ reason.now
        ++ help_words reason.now (drop place text.now)) }
{
    let mut words = Vec::from_slice(alloc, b"is no TOML document")?;
    put_position(&mut words, &text[..place])?;
    words.extend_from_slice(b": ")?;
    words.extend_from_slice(reason.as_bytes())?;
    words.extend_from_slice(help_words(reason, &text[place..]))?;
    Ok(words)
}

/// Puts the line and the column, both from 1, of what follows the front of a text.
fn put_position(line: &mut Vec<u8>, front: &[u8]) -> Result<(), AllocError>
    ensures { OnOk result (line.new.items ≡ line.old.items ++ position_words front.now) }
{
    put_numbered(line, ", line ", lines_before(front))?;
    put_numbered(line, ", column ", octets_behind(front))
}

/// How many lines end in the front of a text.
fn lines_before(front: &[u8]) -> usize
    ensures { result ≡ count_by (λ c. c == 10) front.now }
{
    front.iter().filter(|octet| **octet == b'\n').count()
}

/// How many octets it has after the last line that ends there.
fn octets_behind(front: &[u8]) -> usize
    ensures { result ≡ length (take_while (λ c. not (c == 10)) (reverse front.now)) }
{
    front
        .iter()
        .rev()
        .take_while(|octet| **octet != b'\n')
        .count()
}

/// Of the tables of a text's document.
fn in_tables(
    alloc: Global,
    top: &Table,
    text: &[u8],
    fault: ConfigFault,
) -> Result<Option<Explanation>, AllocError>
    ensures { let members = table_view top.now in
        let Wanted : PlainLocated → List ℕ → Type 0 = λ found words. words ≡ wanted_words found members in
        IfOk result (λ line. Explains text.now (configuration_of members) members Wanted fault line) }
{
    let Err(located) = config_of(alloc, top) else {
        return Ok(None);
    };
    of_fault(alloc, top, text, &located, fault)
}

/// Of a fault of the tables, where it isn't want of memory.
fn of_fault(
    alloc: Global,
    top: &Table,
    text: &[u8],
    located: &Located<'_>,
    fault: ConfigFault,
) -> Result<Option<Explanation>, AllocError>
    ensures { (found : Find Configuration) →
        (located.now.fault ≢ Memory → found ≡ Err (located_view located.now)) →
        let Wanted : PlainLocated → List ℕ → Type 0 = λ at words. words ≡ wanted_words at (table_view top.now) in
        IfOk result (λ line. Explains text.now found (table_view top.now) Wanted fault line) }
{
    if located.fault == ConfigFault::Memory {
        return Err(AllocError);
    }
    if located.fault != fault {
        return Ok(None);
    }
    let value = value_at(located, top);
    let begins = table_line(alloc, located.place, top, text)?;
    let mut line = Vec::new(alloc);
    put_place(&mut line, located, top, begins)?;
    put_fault(&mut line, fault, value)?;
    put_wanted(&mut line, located, top)?;
    Ok(Some(Explanation::of_words(alloc, &line)?))
}
