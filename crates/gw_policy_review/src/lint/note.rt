//! Notes on rules that may not mean what they say.
ghost use Rattle.std.specs.Prelude.{◌≡◌, ◌==◌, ◌++◌, find, length, IfOk, OnOk};
ghost use Rattle.std.specs.List.{filter, flat_map, list_any};
ghost use Rattle.gw_ask_sets.specs.shapes.Meeting.{overlaps};
ghost use Rattle.gw_ask_sets.specs.declared.shapes.search.Outcome.TheVariants.{Never};
ghost use Rattle.gw_policy_review.specs.lint.Notes.{AreAnswerNotes, AreNotes, ArePortNotes, AreUnnamed, IsCastNote, IsNoteOnAnswers, IsWay};
ghost use Rattle.gw_policy_review.specs.lint.Notes.{answer_words, cast_note, field_notes, has_overlap, head_text, is_known, is_unknown};
ghost use Rattle.gw_policy_review.specs.lint.Notes.{lacks_broadcast, lets_unnamed, network_note, network_words, note_text, object_note};
ghost use Rattle.gw_policy_review.specs.lint.Notes.{overlap_note, overlap_words, rule_notes, stations_note, stations_words, unnamed_if};
ghost use Rattle.gw_policy_review.specs.lint.Notes.{way_note};
ghost use Rattle.gw_policy_review.specs.permissions.Texts.{Appends, AreInTurn};
ghost use Rattle.gw_script.specs.Order.{in_order};

use crate::lint::discovery_note::put_discovery_note;
use crate::lint::finding::ALL_STEPS;
use crate::lint::passage::{
    Passages, answers, opener, opens, passes, requests, search_shape, search_shapes, shapes_for,
    unnamed_shapes,
};
use crate::lint::text::Lint;
use crate::lint::trust_note::put_trust_notes;
use crate::numbered::NumberedPort;
use crate::permissions::{is_never, search_allowed};
use crate::warnings::is_station;
use gw_addr::{put_decimal, put_slice, put_text_number};
use gw_ask_sets::shapes::{Outcome, Shape, overlaps};
use gw_configuration::{Config, Port, Route};
use gw_rules::{FieldName, Operation, Range, Rule};
use std::alloc::{AllocError, Global};

/// Appends all notes: rule by rule, then port by port, and then that on broadcasts. The searches for all of them share
/// [`ALL_STEPS`].
pub(crate) fn put_notes(
    alloc: Global,
    out: &mut Vec<u8>,
    shapes: &[Shape],
    lint: &Lint<'_>,
) -> Result<(), AllocError>
    ensures { OnOk result (Appends (AreNotes shapes.now lint.now.config.now lint.now.lines.now) out.old.items out.new.items) }
{
    let unnamed = unnamed(alloc, shapes, lint.config, ALL_STEPS)?;
    put_rules_notes(out, &unnamed.found, lint)?;
    let left = put_ports_notes(alloc, out, lint, unnamed.left)?;
    let _rest = put_cast_note(alloc, out, shapes, lint.config, left)?;
    Ok(())
}

/// What is found of requests that name no object, to another network than the device's, if messages are routed at all,
/// where so many steps are left.
fn unnamed(
    alloc: Global,
    shapes: &[Shape],
    config: &Config,
    left: u32,
) -> Result<Passages, AllocError>
    ensures { IfOk result (λ unnamed. AreUnnamed config.now shapes.now left unnamed.left unnamed.found.items) }
{
    let rules = config.rules();
    let those = shapes_for(alloc, Operation::Route, shapes)?;
    let routed = search_allowed(alloc, rules, &those, left)?;
    let asked = unnamed_if(alloc, passes(&routed.outcome), config, shapes)?;
    let found = search_shapes(alloc, rules, &asked, routed.left)?;
    Ok(found)
}

fn unnamed_if(
    alloc: Global,
    routes: bool,
    config: &Config,
    shapes: &[Shape],
) -> Result<Vec<Shape>, AllocError>
    ensures { IfOk result (λ made. made.items ≡ unnamed_if routes config.now shapes.now) }
{
    if routes {
        unnamed_shapes(alloc, config.device().network, shapes)
    } else {
        Ok(Vec::new(alloc))
    }
}

fn put_rules_notes(
    out: &mut Vec<u8>,
    unnamed: &[Outcome],
    lint: &Lint<'_>,
) -> Result<(), AllocError>
    ensures { OnOk result (out.new.items ≡
        out.old.items ++ in_order (rule_notes unnamed.now lint.now.config.now lint.now.lines.now) 1 lint.now.config.now.rules) }
{
    let rules = lint.config.rules().rules();
    for place in 0..rules.len() {
        put_rule_notes(out, unnamed, lint, place as u16 + 1, &rules[place])?;
    }
    Ok(())
}

/// Appends the notes on the ports, where so many steps are left, and says how many are left then.
fn put_ports_notes(
    alloc: Global,
    out: &mut Vec<u8>,
    lint: &Lint<'_>,
    left: u32,
) -> Result<u32, AllocError>
    ensures { IfOk result (λ rest.
        Appends (AreInTurn (ArePortNotes lint.now.config.now lint.now.lines.now) 1 lint.now.config.now.ports left rest)
        out.old.items out.new.items) }
{
    let ports = lint.config.ports();
    let mut rest = left;
    for place in 0..ports.len() {
        let at = NumberedPort {
            number: place + 1,
            port: &ports[place],
        };
        rest = put_port_notes(alloc, out, lint, &at, rest)?;
    }
    Ok(rest)
}

/// Appends the notes on one port.
fn put_port_notes(
    alloc: Global,
    out: &mut Vec<u8>,
    lint: &Lint<'_>,
    at: &NumberedPort<'_>,
    left: u32,
) -> Result<u32, AllocError>
    ensures { IfOk result (λ rest.
        Appends (ArePortNotes lint.now.config.now lint.now.lines.now at.now.number at.now.port.now left rest)
        out.old.items out.new.items) }
{
    put_stations_note(out, at)?;
    put_answer_notes(alloc, out, lint, at, left)
}

/// Whether a subnet of the port's stations has its own address, and none has its broadcast address.
fn lacks_broadcast(port: &Port) -> bool
    ensures { result ≡ lacks_broadcast port.now }
{
    is_station(port, port.address) && !is_station(port, port.broadcast)
}

/// Appends a note if that is so.
fn put_stations_note(out: &mut Vec<u8>, at: &NumberedPort<'_>) -> Result<(), AllocError>
    ensures { OnOk result (out.new.items ≡ out.old.items ++ stations_note at.now.number at.now.port.now) }
{
    if lacks_broadcast(at.port) {
        put_stations_words(out, at)
    } else {
        Ok(())
    }
}

fn put_stations_words(out: &mut Vec<u8>, at: &NumberedPort<'_>) -> Result<(), AllocError>
    ensures { OnOk result (out.new.items ≡ out.old.items ++ stations_words at.now.number at.now.port.now) }
{
    put_text_number(out, "note: look at port ", at.number)?;
    out.extend_from_slice(b": stations: none of them has its broadcast address ")?;
    at.port.broadcast.put_text(out)?;
    put_slice(out, b", though one has its own\n")
}

/// Appends the notes on one rule, the one of this number.
fn put_rule_notes(
    out: &mut Vec<u8>,
    unnamed: &[Outcome],
    lint: &Lint<'_>,
    number: u16,
    rule: &Rule,
) -> Result<(), AllocError>
    ensures { OnOk result (out.new.items ≡
        out.old.items ++ rule_notes unnamed.now lint.now.config.now lint.now.lines.now number rule.now) }
{
    put_field_notes(out, unnamed, lint, number, rule)?;
    put_trust_notes(out, lint, number, rule)?;
    put_discovery_note(out, lint, number, rule)
}

/// Appends those on what the rule may not match as it reads.
fn put_field_notes(
    out: &mut Vec<u8>,
    unnamed: &[Outcome],
    lint: &Lint<'_>,
    number: u16,
    rule: &Rule,
) -> Result<(), AllocError>
    ensures { OnOk result (out.new.items ≡
        out.old.items ++ field_notes unnamed.now lint.now.config.now lint.now.lines.now number rule.now) }
{
    put_network_note(out, lint, number, rule)?;
    put_overlap_notes(out, lint, number, rule, &FieldName::ALL)?;
    put_object_note(out, unnamed, lint, number)
}

/// Appends what each note begins with: the rule that it is on.
pub(crate) fn put_head(out: &mut Vec<u8>, lint: &Lint<'_>, number: u16) -> Result<(), AllocError>
    ensures { OnOk result (out.new.items ≡ out.old.items ++ head_text lint.now.config.now lint.now.lines.now number) }
{
    out.extend_from_slice(b"note: ")?;
    lint.put_rule(out, number)?;
    out.extend_from_slice(b": look at ")
}

/// Whether it is a network of the device, of a port or of a route.
fn is_known(config: &Config, network: u64) -> bool
    ensures { result ≡ is_known config.now network }
{
    u64::from(config.device().network.get()) == network
        || has_port(config.ports(), network)
        || has_route(config.routes(), network)
}

fn has_port(ports: &[Port], network: u64) -> bool
    ensures { result ≡ list_any (λ port. port.network == network) ports.now }
{
    ports
        .iter()
        .any(|port| u64::from(port.network.get()) == network)
}

fn has_route(routes: &[Route], network: u64) -> bool
    ensures { result ≡ list_any (λ route. route.network == network) routes.now }
{
    routes
        .iter()
        .any(|route| u64::from(route.network.get()) == network)
}

/// Whether the range is one number, which is no such network.
fn is_unknown(config: &Config, range: &Range) -> bool
    ensures { result ≡ is_unknown config.now range.now }
{
    range.low == range.high && !is_known(config, range.low)
}

fn first_unknown(config: &Config, ranges: &[Range]) -> Option<Range>
    ensures { result ≡ find (is_unknown config.now) ranges.now }
{
    ranges
        .iter()
        .copied()
        .find(|range| is_unknown(config, range))
}

/// Appends a note where the rule names one source network that nobody has.
fn put_network_note(
    out: &mut Vec<u8>,
    lint: &Lint<'_>,
    number: u16,
    rule: &Rule,
) -> Result<(), AllocError>
    ensures { OnOk result
        (out.new.items ≡ out.old.items ++ network_note lint.now.config.now lint.now.lines.now number rule.now) }
{
    match first_unknown(lint.config, rule.ranges.source_network.as_slice()) {
        Some(range) => put_unknown_note(out, lint, number, &range),
        None => Ok(()),
    }
}

fn put_unknown_note(
    out: &mut Vec<u8>,
    lint: &Lint<'_>,
    number: u16,
    range: &Range,
) -> Result<(), AllocError>
    ensures { OnOk result (out.new.items ≡
        out.old.items ++ note_text lint.now.config.now lint.now.lines.now number (network_words range.now)) }
{
    put_head(out, lint, number)?;
    put_network_words(out, range)?;
    out.push(b'\n')?;
    Ok(())
}

fn put_network_words(out: &mut Vec<u8>, range: &Range) -> Result<(), AllocError>
    ensures { OnOk result (out.new.items ≡ out.old.items ++ network_words range.now) }
{
    out.extend_from_slice(b"source_network: ")?;
    put_decimal(out, range.low)?;
    put_slice(out, b" is of no port, no route and not the device's")
}

/// How many of the ranges have a number in common with this one.
fn overlapping(range: &Range, ranges: &[Range]) -> usize
    ensures { result ≡ length (filter (overlaps range.now) ranges.now) }
{
    ranges.iter().filter(|other| overlaps(range, other)).count()
}

/// Whether one of the ranges has numbers in common with more of them than itself.
fn has_overlap(ranges: &[Range]) -> bool
    ensures { result ≡ has_overlap ranges.now }
{
    ranges.iter().any(|range| 1 < overlapping(range, ranges))
}

/// Appends a note for each of these fields in which two ranges of the rule overlap.
fn put_overlap_notes(
    out: &mut Vec<u8>,
    lint: &Lint<'_>,
    number: u16,
    rule: &Rule,
    fields: &[FieldName],
) -> Result<(), AllocError>
    ensures { OnOk result (out.new.items ≡
        out.old.items ++ flat_map (overlap_note lint.now.config.now lint.now.lines.now number rule.now) fields.now) }
{
    for field in fields {
        put_overlap_note(out, lint, number, rule, *field)?;
    }
    Ok(())
}

fn put_overlap_note(
    out: &mut Vec<u8>,
    lint: &Lint<'_>,
    number: u16,
    rule: &Rule,
    field: FieldName,
) -> Result<(), AllocError>
    ensures { OnOk result
        (out.new.items ≡ out.old.items ++ overlap_note lint.now.config.now lint.now.lines.now number rule.now field) }
{
    if !has_overlap(rule.ranges(field).as_slice()) {
        return Ok(());
    }
    put_head(out, lint, number)?;
    put_overlap_words(out, field)?;
    out.push(b'\n')?;
    Ok(())
}

fn put_overlap_words(out: &mut Vec<u8>, field: FieldName) -> Result<(), AllocError>
    ensures { OnOk result (out.new.items ≡ out.old.items ++ overlap_words field) }
{
    out.extend_from_slice(field.key().as_bytes())?;
    out.extend_from_slice(b": two of its ranges overlap")
}

/// Whether requests that name no object were found to pass by the rule of this number.
fn lets_unnamed(unnamed: &[Outcome], config: &Config, number: u16) -> bool
    ensures { result ≡ lets_unnamed unnamed.now config.now number }
{
    let rules = config.rules();
    unnamed.iter().any(|found| opens(rules, number, found))
}

/// Appends a note if they were.
fn put_object_note(
    out: &mut Vec<u8>,
    unnamed: &[Outcome],
    lint: &Lint<'_>,
    number: u16,
) -> Result<(), AllocError>
    ensures { OnOk result
        (out.new.items ≡ out.old.items ++ object_note unnamed.now lint.now.config.now lint.now.lines.now number) }
{
    if !lets_unnamed(unnamed, lint.config, number) {
        return Ok(());
    }
    put_head(out, lint, number)?;
    out.extend_from_slice(b"object_type: without one, requests pass that name no object\n")
}

/// Two ports: requests go from the network of the one to that of the other, and their answers back.
#[derive(Clone, Copy)]
struct Way<'a> {
    /// The port in whose network the requests begin.
    from: NumberedPort<'a>,
    /// The one to whose network they go.
    to: NumberedPort<'a>,
}

/// Appends a note for each port to whose network requests are found to pass from the network of this one, and no
/// answer back.
fn put_answer_notes(
    alloc: Global,
    out: &mut Vec<u8>,
    lint: &Lint<'_>,
    from: &NumberedPort<'_>,
    left: u32,
) -> Result<u32, AllocError>
    ensures { IfOk result (λ rest.
        Appends (AreAnswerNotes lint.now.config.now lint.now.lines.now from.now.number from.now.port.now left rest)
        out.old.items out.new.items) }
{
    let ports = lint.config.ports();
    let mut rest = left;
    for place in 0..ports.len() {
        let way = Way {
            from: *from,
            to: NumberedPort {
                number: place + 1,
                port: &ports[place],
            },
        };
        rest = put_answer_note(alloc, out, lint, &way, rest)?;
    }
    Ok(rest)
}

/// Appends that note for two ports.
fn put_answer_note(
    alloc: Global,
    out: &mut Vec<u8>,
    lint: &Lint<'_>,
    way: &Way<'_>,
    left: u32,
) -> Result<u32, AllocError>
    ensures { IfOk result (λ rest. Appends (IsNoteOnAnswers lint.now.config.now lint.now.lines.now way.now.from.number
        way.now.from.port.now way.now.to.number way.now.to.port.now left rest) out.old.items out.new.items) }
{
    let here = way.from.port.network.get();
    if here == way.to.port.network.get() {
        return Ok(left);
    }
    let asked = answers(lint.config.format(), &way.to, here);
    let back = search_shape(alloc, lint.config.rules(), asked, left)?;
    if is_never(&back.outcome) {
        put_request_note(alloc, out, lint, way, back.left)
    } else {
        Ok(back.left)
    }
}

/// Appends it, if requests are found to pass.
fn put_request_note(
    alloc: Global,
    out: &mut Vec<u8>,
    lint: &Lint<'_>,
    way: &Way<'_>,
    left: u32,
) -> Result<u32, AllocError>
    ensures { IfOk result (λ rest. Appends (IsWay lint.now.config.now lint.now.lines.now way.now.from.number way.now.from.port.now
        way.now.to.port.now Never left rest) out.old.items out.new.items) }
{
    let (here, there) = (way.from.port.network.get(), way.to.port.network.get());
    let asked = requests(lint.config.format(), &way.from, there);
    let found = search_shape(alloc, lint.config.rules(), asked, left)?;
    put_way_note(out, lint, here, there, &found.outcome)?;
    Ok(found.left)
}

fn put_way_note(
    out: &mut Vec<u8>,
    lint: &Lint<'_>,
    here: u16,
    there: u16,
    found: &Outcome,
) -> Result<(), AllocError>
    ensures { OnOk result
        (out.new.items ≡ out.old.items ++ way_note lint.now.config.now lint.now.lines.now here there found.now) }
{
    let Some(by) = opener(lint.config.rules(), found) else {
        return Ok(());
    };
    put_head(out, lint, by)?;
    put_answer_words(out, here, there)?;
    out.push(b'\n')?;
    Ok(())
}

fn put_answer_words(out: &mut Vec<u8>, here: u16, there: u16) -> Result<(), AllocError>
    ensures { OnOk result (out.new.items ≡ out.old.items ++ answer_words here there) }
{
    out.extend_from_slice(b"the way back: requests from network ")?;
    put_decimal(out, here)?;
    out.extend_from_slice(b" to network ")?;
    put_decimal(out, there)?;
    put_slice(
        out,
        b" may pass, their answers (services 1026 to 1031) may not",
    )
}

/// Appends a note where some broadcasts are distributed, and each is denied.
fn put_cast_note(
    alloc: Global,
    out: &mut Vec<u8>,
    shapes: &[Shape],
    config: &Config,
    left: u32,
) -> Result<u32, AllocError>
    ensures { IfOk result (λ rest. Appends (IsCastNote shapes.now config.now left rest) out.old.items out.new.items) }
{
    let distributed = shapes_for(alloc, Operation::Cast, shapes)?;
    let found = search_allowed(alloc, config.rules(), &distributed, left)?;
    put_cast_words(out, &distributed, &found.outcome)?;
    Ok(found.left)
}

fn put_cast_words(
    out: &mut Vec<u8>,
    distributed: &[Shape],
    found: &Outcome,
) -> Result<(), AllocError>
    ensures { OnOk result (out.new.items ≡ out.old.items ++ cast_note distributed.now found.now) }
{
    if distributed.is_empty() || !is_never(found) {
        return Ok(());
    }
    out.extend_from_slice(
        b"note: look at cast: no rule allows it, so no broadcast reaches a peer or a foreign device\n",
    )
}
