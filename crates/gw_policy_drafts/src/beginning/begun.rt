//! A configuration to begin with, from the words of a call.

ghost use Rattle.std.specs.Prelude.{◌≡◌, false, IfErr, IfOk, IsTrue};
ghost use Rattle.std.specs.List.{list_all};
ghost use Rattle.gw_rules.specs.declared.format.Format.TheVariants.{Three};
ghost use Rattle.gw_rules.specs.declared.operation.TheConstants.Operation.{ALL};
ghost use Rattle.gw_ask_sets.specs.assertions.Judging.{AreJudged};
ghost use Rattle.gw_ask_sets.specs.declared.assertions.judging.TheConstants.{JUDGING_STEPS as MOST};
ghost use Rattle.gw_policy_drafts.specs.beginning.Begun.{Begins, BeginsAs, IsBegun, IsUnwritten, IsWrong, do_hold, holds, is_closed};
ghost use Rattle.gw_policy_drafts.specs.beginning.Begun.{is_operator};
ghost use Rattle.gw_policy_drafts.specs.beginning.Ports.{ports_of, routes_of};
ghost use Rattle.gw_policy_drafts.specs.beginning.Site.{Site as SpecSite, site_of, site_text};
ghost use Rattle.gw_policy_drafts.specs.internal.Safe.{are_safe, is_one, is_safe, is_safe_for, may_allow, names_operators, spares};

use crate::beginning::fault::BeginFault;
use crate::beginning::flaws::wrong_in;
use crate::beginning::part::SitePart;
use crate::beginning::ports::{address_of, ports_of, routes_of};
use crate::beginning::site::{Site, SiteInWords, site_in};
use crate::beginning::text::text_of;
use crate::listing::{ListingFault, read};
use gw_ask_sets::assertions::{JUDGING_STEPS, Judged, judge};
use gw_configuration::sameness::are_same;
use gw_configuration::{Config, Port, Route, WRITING_SERVICES};
use gw_rules::{FieldName, Operation, Range, Rule, admit};
use std::alloc::Global;

/// Whether a key is that of an operator's station.
fn is_operator(operators: &[SitePart], key: u64) -> bool
    ensures { result ≡ is_operator operators.now key }
{
    operators
        .iter()
        .any(|operator| address_of(*operator).key48() == key)
}

/// Whether a range is the one key of an operator's station.
fn is_one(operators: &[SitePart], range: Range) -> bool
    ensures { result ≡ is_one operators.now range }
{
    range.low == range.high && is_operator(operators, range.low)
}

fn are_each_one(operators: &[SitePart], ranges: &[Range]) -> bool
    ensures { result ≡ list_all (is_one operators.now) ranges.now }
{
    ranges.iter().all(|range| is_one(operators, *range))
}

/// Whether a rule names operators alone as senders.
fn names_operators(operators: &[SitePart], rule: &Rule) -> bool
    ensures { result ≡ names_operators operators.now rule.now }
{
    let senders = rule.ranges(FieldName::Sender).as_slice();
    !senders.is_empty() && are_each_one(operators, senders)
}

/// Whether it names services that change no device.
fn spares(rule: &Rule) -> bool
    ensures { result ≡ spares rule.now }
{
    let services = rule.ranges(FieldName::Service).as_slice();
    WRITING_SERVICES
        .iter()
        .all(|service| !admit(services, Some(*service)))
}

/// Whether nobody may do this.
fn is_closed(operation: Operation) -> bool
    ensures { result ≡ is_closed operation }
{
    matches!(
        operation,
        Operation::Register
            | Operation::Delete
            | Operation::ReadTable
            | Operation::WriteTable
            | Operation::Learn
            | Operation::Enter
            | Operation::Claim
    )
}

/// Whether a rule may allow an operation.
fn may_allow(operators: &[SitePart], rule: &Rule, operation: Operation) -> bool
    ensures { result ≡ may_allow operators.now rule.now operation }
{
    match operation {
        Operation::Write => names_operators(operators, rule),
        Operation::Cast | Operation::Route => spares(rule),
        _ => !is_closed(operation),
    }
}

fn is_safe_for(operators: &[SitePart], rule: &Rule, operation: Operation) -> bool
    ensures { result ≡ is_safe_for operators.now rule.now operation }
{
    let operations = rule.ranges(FieldName::Operation).as_slice();
    !admit(operations, Some(operation.number())) || may_allow(operators, rule, operation)
}

fn is_safe_for_each(operators: &[SitePart], rule: &Rule) -> bool
    ensures { result ≡ list_all (is_safe_for operators.now rule.now) ALL }
{
    Operation::ALL
        .iter()
        .all(|operation| is_safe_for(operators, rule, *operation))
}

fn is_safe(operators: &[SitePart], rule: &Rule) -> bool
    ensures { result ≡ is_safe operators.now rule.now }
{
    !rule.allow || is_safe_for_each(operators, rule)
}

fn are_safe(operators: &[SitePart], rules: &[Rule]) -> bool
    ensures { result ≡ are_safe operators.now rules.now }
{
    rules.iter().all(|rule| is_safe(operators, rule))
}

fn does_each_hold(judged: &[Judged]) -> bool
    ensures { result ≡ list_all holds judged.now }
{
    judged.iter().all(|one| matches!(one, Judged::Holds))
}

fn do_hold(judged: &[Judged]) -> bool
    ensures { result ≡ do_hold judged.now }
{
    !judged.is_empty() && does_each_hold(judged)
}

/// Whether a configuration of format 3 announces nothing, and has these ports and routes.
fn has_parts(config: &Config, ports: &[Port], routes: &[Route]) -> bool
    ensures format { IsTrue result → config.now.format ≡ Three }
    ensures announce { IsTrue result → config.now.announce ≡ false }
    ensures ports { IsTrue result → config.now.ports ≡ ports.now }
    ensures routes { IsTrue result → config.now.routes ≡ routes.now }
{
    config.format().names_stations()
        && !config.announces()
        && are_same(config.ports(), ports)
        && are_same(config.routes(), routes)
}

/// Whether a configuration that was judged so is one to begin with, of these ports and routes.
fn is_begun(
    site: &Site,
    ports: &[Port],
    routes: &[Route],
    config: &Config,
    judged: &[Judged],
) -> bool
    requires ports { ports.now ≡ ports_of (site_of site.now) }
    requires routes { routes.now ≡ routes_of (site_of site.now) }
    requires judged { AreJudged config.now MOST judged.now }
    ensures { IsTrue result → IsBegun (site_of site.now) config.now }
{
    if !has_parts(config, ports, routes) {
        return false;
    }
    if !are_safe(&site.operators, config.rules().rules()) {
        return false;
    }
    do_hold(judged)
}

/// The text of a site, which was read again.
fn written(alloc: Global, site: &Site) -> Result<Vec<u8>, ListingFault>
    ensures { IfOk result (λ text. Begins (site_of site.now) text.items) }
{
    let ports = ports_of(alloc, site)?;
    let routes = routes_of(alloc, site)?;
    let text = text_of(alloc, site, &ports, &routes)?;
    let config = read(alloc, &text)?;
    let judged = judge(alloc, &config, JUDGING_STEPS)?;
    if is_begun(site, &ports, &routes, &config, &judged) {
        Ok(text)
    } else {
        Err(ListingFault::Unlike)
    }
}

/// The text, or why there is none.
fn answer(written: Result<Vec<u8>, ListingFault>) -> Result<Vec<u8>, BeginFault>
    ensures text { (s : SpecSite) → IfOk written (λ text. Begins s text.items) → IfOk result (λ text. Begins s text.items) }
    ensures fault { IfErr result IsUnwritten }
{
    match written {
        Ok(text) => Ok(text),
        Err(ListingFault::Unlike) => Err(BeginFault::Unlike),
        Err(ListingFault::Memory) => Err(BeginFault::Memory),
    }
}

/// Writes a configuration to begin with, of what the words of a call say: the ports, with the subnets of their stations and with their
/// peers, the routes, and rules by which devices find and read each other, and operators write values. Without an operator nobody writes,
/// and nobody registers, changes tables or teaches routes. The text has assertions of this, and comments that say what to change.
///
/// What was written is read again before it is answered. `Word` with the first word that is wrong; `Unlike` if what was written isn't read
/// as a configuration of these ports and routes that allows no more than this and whose assertions hold; `Memory` if there is none for it.
pub fn begin(alloc: Global, words: &SiteInWords<'_>) -> Result<Vec<u8>, BeginFault>
    ensures begins { IfOk result (λ text. BeginsAs (site_text words.now) text.items) }
    ensures wrong { IfErr result (λ fault. IsWrong (site_text words.now) fault) }
{
    let site = site_in(alloc, words)?;
    match wrong_in(&site) {
        Some(word) => Err(BeginFault::Word(word)),
        None => answer(written(alloc, &site)),
    }
}
