//! The sections of a text, and what a program answers to each, in their order.

use crate::edits::config_text;
use crate::notation::is_case;
use std::alloc::Global;
use std::io;
use std::io::{BufWriter, ErrorKind, Write};

/// A case: a line of a section, or a whole section.
#[derive(Clone, Copy)]
pub struct Case<'a> {
    /// The text of the configuration that holds for it; empty if there is none.
    pub config: &'a str,
    /// All sections under that configuration.
    pub sections: &'a str,
    /// The first line of its section, after `== `.
    pub head: &'a str,
    /// The line; of a whole section what follows its first line.
    pub text: &'a str,
}

impl<'a> Case<'a> {
    /// The kind of its section: the first word.
    pub fn kind(&self) -> &'a str {
        match self.head.split_once(' ') {
            Some((kind, _name)) => kind,
            None => self.head,
        }
    }
}

/// The kinds of cases that a program answers.
///
/// An answer is an `Err` of `InvalidData` if the case isn't written as its kind wants, and another if memory was refused.
pub trait Kinds {
    /// Appends the answer to a case of one line.
    fn answer_line(&self, alloc: Global, case: &Case<'_>, out: &mut Vec<u8>) -> io::Result<()>;

    /// Appends the answer to a section that is one case; `None` if each of its lines is one.
    fn answer_section(
        &self,
        alloc: Global,
        section: &Case<'_>,
        out: &mut Vec<u8>,
    ) -> Option<io::Result<()>>;
}

/// Appends a case of one line, and its answer.
fn put_line<K: Kinds>(
    kinds: &K,
    alloc: Global,
    case: &Case<'_>,
    out: &mut Vec<u8>,
) -> io::Result<()> {
    write!(out, "{} => ", case.text)?;
    let len = out.len();
    match kinds.answer_line(alloc, case, out) {
        Err(fault) if fault.kind() == ErrorKind::InvalidData => {
            out.truncate(len);
            writeln!(out, "no case")
        },
        answered => {
            answered?;
            writeln!(out)
        },
    }
}

/// Appends each case of a section.
fn put_lines<K: Kinds>(
    kinds: &K,
    alloc: Global,
    section: &Case<'_>,
    out: &mut Vec<u8>,
) -> io::Result<()> {
    for text in section.text.lines() {
        if is_case(text) {
            put_line(kinds, alloc, &Case { text, ..*section }, out)?;
        }
    }
    Ok(())
}

/// Writes a section's answers.
fn write_section<K: Kinds, W: Write + Drop>(
    kinds: &K,
    alloc: Global,
    section: &Case<'_>,
    writer: &mut BufWriter<W>,
) -> io::Result<()> {
    let mut out = Vec::new(alloc);
    writeln!(out, "== {}", section.head)?;
    match kinds.answer_section(alloc, section, &mut out) {
        Some(answered) => answered?,
        None => put_lines(kinds, alloc, section, &mut out)?,
    }
    writer.write_all(&out)
}

/// Writes the answers to each section of a text, under one configuration.
///
/// # Errors
///
/// If a section that is one case isn't written as its kind wants, memory is refused, or a write fails.
pub fn write_sections<K: Kinds, W: Write + Drop>(
    kinds: &K,
    alloc: Global,
    config: &str,
    sections: &str,
    writer: &mut BufWriter<W>,
) -> io::Result<()> {
    for section in sections.split("== ").skip(1) {
        let (head, text) = section.split_once('\n').unwrap_or((section, ""));
        let section = Case {
            config,
            sections,
            head,
            text,
        };
        write_section(kinds, alloc, &section, writer)?;
    }
    Ok(())
}

/// Writes a configuration's name, and the answers to each section under it.
fn write_group<K: Kinds, W: Write + Drop>(
    kinds: &K,
    alloc: Global,
    built_in: &str,
    group: &str,
    writer: &mut BufWriter<W>,
) -> io::Result<()> {
    let (config, _sections) = group.split_once("== ").unwrap_or((group, ""));
    let (name, body) = config.split_once('\n').unwrap_or((config, ""));
    let config = config_text(alloc, built_in, body)?;
    writeln!(writer, "== config {name}")?;
    write_sections(kinds, alloc, config.as_str(), group, writer)
}

/// Writes each configuration's name, and the answers to the sections under it. The built-in configuration is the text
/// of one that is empty, and what an edit is made of.
///
/// # Errors
///
/// As [`write_sections`]; also if an edit doesn't fit the built-in configuration.
pub fn write_groups<K: Kinds, W: Write + Drop>(
    kinds: &K,
    alloc: Global,
    built_in: &str,
    text: &str,
    writer: &mut BufWriter<W>,
) -> io::Result<()> {
    for group in text.split("== config ").skip(1) {
        write_group(kinds, alloc, built_in, group, writer)?;
    }
    Ok(())
}
