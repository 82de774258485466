//! The rules of a configuration, as tables of format 3.
ghost use Rattle.std.specs.Prelude.{◌≡◌, ◌+◌, ◌++◌, [], length, slice_get, Ok, IfOk, IsTrue, OnOk};
ghost use Rattle.std.specs.List.{flat_map};
ghost use Rattle.gw_policy_text.specs.Document.{configuration};
ghost use Rattle.gw_rules.specs.declared.field.TheConstants.FieldName.{ALL};
ghost use Rattle.gw_script.specs.Order.{in_order};
ghost use Rattle.gw_policy_drafts.specs.declared.listing.ListingFault.TheVariants as fault;
ghost use Rattle.gw_policy_drafts.specs.Listing.{IsReadAgain, allow_line, audit_at, audit_line, field_of, head_text, last_text, line_end};
ghost use Rattle.gw_policy_drafts.specs.Listing.{listing_text, note_at, note_line, noted_line, number_line, quiet_line, rule_table};
ghost use Rattle.gw_policy_drafts.specs.Listing.{said_text, table_at};

use crate::migration::{put_device, put_field, put_ports, put_quoted};
use gw_addr::put_decimal;
use gw_configuration::sameness::are_same;
use gw_configuration::{Config, ConfigFault, Text};
use gw_policy_text::read_config;
use gw_rules::{FieldName, Rule};
use std::alloc::{AllocError, Global};
use thiserror::Error;

/// Why the rules of a configuration aren't listed.
#[derive(Clone, Copy, Debug, Error)]
pub enum ListingFault {
    /// What was written isn't read as these rules: the text would be over 1,048,576 octets.
    #[error("Unlike")]
    Unlike,
    /// There is no memory for the text.
    #[error("Memory")]
    Memory,
}

impl From<AllocError> for ListingFault {
    ghost from_gives = { λ _ given. given ≡ fault.Memory };

    fn from(_error: AllocError) -> Self {
        ListingFault::Memory
    }
}

/// Writes the rules of a configuration as they are judged: a table of format 3 for each rule of the list, in order. The
/// items of sets stand in the fields that name them, the rules for the way and for the answers have tables of their own, and
/// a rule that is turned off has none. Notes and audits stay. Before each table a comment has the rule's number in the list,
/// and that of the table of the configuration's text from which it comes, each from 1, and the line on which this begins;
/// tables of rules that are turned off count there too. `lines` are the lines of all tables in their order, or none if they
/// aren't known.
///
/// What was written is read again before it is answered, behind the device and the ports of the configuration. `Unlike` if it
/// isn't read as these rules; `Memory` if there is none for it.
///
/// ```text
/// # rule 5, from table 3, line 41
/// [[rule]]
/// name = "panel-back"
/// allow = true
/// operation = ["route"]
/// source_network = [2]
/// destination = [1]
/// service = [[1026, 1031]]
/// ```
pub fn list_rules(alloc: Global, config: &Config, lines: &[u32]) -> Result<Vec<u8>, ListingFault>
    ensures text { IfOk result (λ text. text.items ≡ listing_text config.now lines.now) }
    ensures again { IfOk result (λ text. IsReadAgain config.now text.items) }
{
    let tables = tables_of(alloc, config, lines)?;
    let front = front_of(alloc, config)?;
    read_again(alloc, config, &front, &tables)?;
    Ok(tables)
}

/// The tables of the rules.
fn tables_of(alloc: Global, config: &Config, lines: &[u32]) -> Result<Vec<u8>, AllocError>
    ensures { IfOk result (λ text. text.items ≡ listing_text config.now lines.now) }
{
    let origins = Origins {
        tables: config.tables(),
        lines,
        notes: config.notes(),
        audits: config.audits(),
    };
    let mut out = Vec::new(alloc);
    put_tables(&mut out, config.rules().rules(), &origins)?;
    Ok(out)
}

/// A text of format 3 with the device and the ports of a configuration, and without rules.
fn front_of(alloc: Global, config: &Config) -> Result<Vec<u8>, AllocError> {
    let mut out = Vec::new(alloc);
    out.extend_from_slice(b"format = 3\n")?;
    put_device(&mut out, config.device())?;
    put_ports(&mut out, config.ports())?;
    Ok(out)
}

/// The configuration of a text. `Unlike` if it is that of none, or `Memory`.
pub(crate) fn read(alloc: Global, text: &[u8]) -> Result<Config, ListingFault>
    ensures { IfOk result (λ config. configuration text.now ≡ Ok config) }
{
    match read_config(alloc, text) {
        Ok(config) => Ok(config),
        Err(ConfigFault::Memory) => Err(ListingFault::Memory),
        Err(_) => Err(ListingFault::Unlike),
    }
}

/// Two texts, one after the other.
fn joined(alloc: Global, front: &[u8], rest: &[u8]) -> Result<Vec<u8>, AllocError>
    ensures { IfOk result (λ text. text.items ≡ front.now ++ rest.now) }
{
    let mut text = Vec::new(alloc);
    text.extend_from_slice(front)?;
    text.extend_from_slice(rest)?;
    Ok(text)
}

/// Reads the tables of a configuration's rules behind a text that has no rules. `Unlike` if they aren't read as these
/// rules; `Memory`.
fn read_again(
    alloc: Global,
    config: &Config,
    front: &[u8],
    tables: &[u8],
) -> Result<(), ListingFault>
    ensures { OnOk result (IsReadAgain config.now tables.now) }
{
    let bare = read(alloc, front)?;
    let text = joined(alloc, front, tables)?;
    let back = read(alloc, &text)?;
    if bare.rules().rules().is_empty() && is_listed(config, &back) {
        Ok(())
    } else {
        Err(ListingFault::Unlike)
    }
}

/// Whether a configuration has the rules of the other one, without sets, each from a table of its own.
fn is_listed(config: &Config, back: &Config) -> bool
    ensures rules { IsTrue result → back.now.rules ≡ config.now.rules }
    ensures notes { IsTrue result → back.now.notes ≡ config.now.notes }
    ensures audits { IsTrue result → back.now.audits ≡ config.now.audits }
    ensures sets { IsTrue result → back.now.sets ≡ [] }
    ensures written { IsTrue result → back.now.written ≡ length config.now.rules }
{
    are_same(back.rules().rules(), config.rules().rules())
        && are_same(back.notes(), config.notes())
        && are_same(back.audits(), config.audits())
        && back.sets().is_empty()
        && usize::from(back.written_rules()) == config.rules().rules().len()
}

/// Whence the rules of a list come, in their order.
#[derive(Clone, Copy)]
struct Origins<'a> {
    /// The position of the table of each, from 0.
    tables: &'a [u16],
    /// The lines of the text on which the tables begin.
    lines: &'a [u32],
    /// The note of each.
    notes: &'a [Text],
    /// Whether what it allows is recorded, of each.
    audits: &'a [bool],
}

fn put_tables(out: &mut Vec<u8>, rules: &[Rule], origins: &Origins<'_>) -> Result<(), AllocError>
    ensures { OnOk result (out.new.items ≡ out.old.items
        ++ in_order (rule_table origins.now.tables.now origins.now.lines.now origins.now.notes.now origins.now.audits.now) 1 rules.now) }
{
    for (place, rule) in rules.iter().enumerate() {
        let table = usize::from(table_at(origins.tables, place));
        put_number(out, place + 1, table + 1, line_at(origins.lines, table))?;
        let said = RuleComment {
            note: note_at(origins.notes, place),
            audit: audit_at(origins.audits, place),
        };
        put_table(out, rule, &said)?;
    }
    Ok(())
}

/// The place, from 0, of the table of the text from which the rule at a place comes, or 0.
fn table_at(tables: &[u16], place: usize) -> u16
    ensures { result ≡ table_at tables.now place }
{
    match tables.get(place) {
        Some(table) => *table,
        None => 0,
    }
}

/// The line on which the table at a place begins, if that is known.
fn line_at(lines: &[u32], table: usize) -> Option<u32>
    ensures { result ≡ slice_get lines.now table }
{
    match lines.get(table) {
        Some(line) => Some(*line),
        None => None,
    }
}

/// Appends the number of a rule, and that of the table of the text from which it comes, each from 1, and its line.
#[tactic(auto, unfolding(crate::specs::Listing::number_line))]
fn put_number(
    out: &mut Vec<u8>,
    number: usize,
    table: usize,
    line: Option<u32>,
) -> Result<(), AllocError>
    ensures { OnOk result (out.new.items ≡ out.old.items ++ number_line number table line) }
{
    out.extend_from_slice(b"# rule ")?;
    put_decimal(out, number)?;
    out.extend_from_slice(b", from table ")?;
    put_decimal(out, table)?;
    put_line_end(out, line)
}

#[tactic(auto, unfolding(crate::specs::Listing::line_end))]
fn put_line_end(out: &mut Vec<u8>, line: Option<u32>) -> Result<(), AllocError>
    ensures { OnOk result (out.new.items ≡ out.old.items ++ line_end line) }
{
    let Some(line) = line else {
        return out.extend_from_slice(b"\n");
    };
    out.extend_from_slice(b", line ")?;
    put_decimal(out, line)?;
    out.extend_from_slice(b"\n")
}

/// What is said of a rule beside what it decides.
#[derive(Clone, Copy)]
struct RuleComment<'a> {
    /// Its note, empty if it has none.
    note: &'a str,
    /// Whether what it allows is recorded.
    audit: bool,
}

/// The note of the rule at a place, from 0, or nothing.
pub fn note_at(notes: &[Text], place: usize) -> &str
    ensures { result.now ≡ note_at notes.now place }
{
    match notes.get(place) {
        Some(note) => note.as_str(),
        None => "",
    }
}

/// Whether the rule at a place is audited.
fn audit_at(audits: &[bool], place: usize) -> bool
    ensures { result ≡ audit_at audits.now place }
{
    match audits.get(place) {
        Some(audit) => *audit,
        None => false,
    }
}

/// Appends the table of a rule.
#[tactic(auto, unfolding(crate::specs::Listing::said_text))]
fn put_table(out: &mut Vec<u8>, rule: &Rule, said: &RuleComment<'_>) -> Result<(), AllocError>
    ensures { OnOk result (out.new.items ≡ out.old.items ++ said_text rule.now said.now.note.now said.now.audit) }
{
    put_head(out, rule)?;
    put_quiet(out, rule.quiet)?;
    put_fields(out, rule)?;
    put_last(out, said)
}

/// Appends the name of a rule, and what it says of the asks that it matches.
#[tactic(auto, unfolding(crate::specs::Listing::head_text))]
fn put_head(out: &mut Vec<u8>, rule: &Rule) -> Result<(), AllocError>
    ensures { OnOk result (out.new.items ≡ out.old.items ++ head_text rule.now) }
{
    out.extend_from_slice(b"[[rule]]\nname = ")?;
    put_quoted(out, rule.name.as_str())?;
    put_allow(out, rule.allow)
}

#[tactic(auto, unfolding(crate::specs::Listing::allow_line))]
fn put_allow(out: &mut Vec<u8>, allow: bool) -> Result<(), AllocError>
    ensures { OnOk result (out.new.items ≡ out.old.items ++ allow_line allow) }
{
    if allow {
        out.extend_from_slice(b"\nallow = true\n")
    } else {
        out.extend_from_slice(b"\nallow = false\n")
    }
}

#[tactic(auto, unfolding(crate::specs::Listing::quiet_line))]
fn put_quiet(out: &mut Vec<u8>, quiet: bool) -> Result<(), AllocError>
    ensures { OnOk result (out.new.items ≡ out.old.items ++ quiet_line quiet) }
{
    if quiet {
        out.extend_from_slice(b"quiet = true\n")
    } else {
        Ok(())
    }
}

fn put_fields(out: &mut Vec<u8>, rule: &Rule) -> Result<(), AllocError>
    ensures { OnOk result (out.new.items ≡ out.old.items ++ flat_map (field_of rule.now) ALL) }
{
    for field in FieldName::ALL.iter() {
        put_field_of(out, rule, *field)?;
    }
    Ok(())
}

fn put_field_of(out: &mut Vec<u8>, rule: &Rule, field: FieldName) -> Result<(), AllocError>
    ensures { OnOk result (out.new.items ≡ out.old.items ++ field_of rule.now field) }
{
    put_field(out, field, rule.ranges(field).as_slice())
}

/// Appends the note and the audit of a rule, and the empty line behind its table.
#[tactic(auto, unfolding(crate::specs::Listing::last_text))]
fn put_last(out: &mut Vec<u8>, said: &RuleComment<'_>) -> Result<(), AllocError>
    ensures { OnOk result (out.new.items ≡ out.old.items ++ last_text said.now.note.now said.now.audit) }
{
    put_note(out, said.note)?;
    put_audit(out, said.audit)?;
    out.extend_from_slice(b"\n")
}

fn put_note(out: &mut Vec<u8>, note: &str) -> Result<(), AllocError>
    ensures { OnOk result (out.new.items ≡ out.old.items ++ note_line note.now) }
{
    if note.is_empty() {
        return Ok(());
    }
    put_noted(out, note)
}

#[tactic(auto, unfolding(crate::specs::Listing::noted_line))]
fn put_noted(out: &mut Vec<u8>, note: &str) -> Result<(), AllocError>
    ensures { OnOk result (out.new.items ≡ out.old.items ++ noted_line note.now) }
{
    out.extend_from_slice(b"note = ")?;
    put_quoted(out, note)?;
    out.extend_from_slice(b"\n")
}

#[tactic(auto, unfolding(crate::specs::Listing::audit_line))]
fn put_audit(out: &mut Vec<u8>, audit: bool) -> Result<(), AllocError>
    ensures { OnOk result (out.new.items ≡ out.old.items ++ audit_line audit) }
{
    if audit {
        out.extend_from_slice(b"audit = true\n")
    } else {
        Ok(())
    }
}
