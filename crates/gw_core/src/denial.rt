//! The record of what the policy denies, but by quiet rules.

ghost use Rattle.std.specs.Prelude.{◌≡◌, ◌<◌, ◌+◌, ◌++◌, ◌^◌, [], length, IsOk, OnOk};
ghost use Rattle.std.specs.Option.{option_map, option_map_or};
ghost use Rattle.gw_core.specs.Denials.{default_name, denials_from, denials_of, name_at, rule_name};
ghost use Rattle.gw_core.specs.Receive.{source_of};
ghost use Rattle.gw_core.specs.internal.View.{origin_of, origin_view};

use crate::event::Counts;
use crate::receive::Received;
use crate::seen::Whom;
use gw_addr::{BipAddr, Source};
use gw_audit::{Denial, Denials};
use gw_relay::{Message, PortState, local_source};
use gw_rules::{Ask, NO_RULE, Operation, Refusal, Rule, RuleList, RuleName};
use std::alloc::AllocError;

/// The name of the rule of this number, from 1, or `default`.
pub(crate) fn name_at(rules: &RuleList, number: u16) -> &str
    ensures { result.now ≡ name_at rules.now number }
{
    match rule_at(rules, number) {
        Some(rule) => rule.name.as_str(),
        None => NO_RULE,
    }
}

/// The rule of this number, from 1.
fn rule_at(rules: &RuleList, number: u16) -> Option<&Rule>
    ensures { option_map_or (λ rule. rule.now.name) result default_name ≡ name_at rules.now number }
{
    rules.rules().get(usize::from(number.checked_sub(1)?))
}

/// The name of the rule that decided an ask, or `default`.
pub fn rule_name(rules: &RuleList, by: Option<u16>) -> RuleName
    ensures { result ≡ rule_name rules.now by }
{
    match by {
        Some(number) => match rule_at(rules, number) {
            Some(rule) => rule.name.copy(),
            None => RuleName::of_no_rule(),
        },
        None => RuleName::of_no_rule(),
    }
}

/// Where what is received comes from. It lends the message, so that a source is made only for an ask that is kept.
#[derive(Clone, Copy)]
pub(crate) struct Origin<'a> {
    /// The port that it came on.
    pub here: &'a PortState,
    link: BipAddr,
    message: Option<&'a Message<'a>>,
}

impl Origin<'_> {
    /// Whom an ask is of: an ask to enter is of the link source, and any other of whom the datagram claims
    /// to come from.
    pub(crate) fn source_of(&self, ask: &Ask) -> Source
        ensures { result ≡ source_of (origin_view self.now) ask.now }
    {
        match self.message {
            Some(message) if ask.operation != Some(Operation::Enter.number()) => message.claim(),
            _ => local_source(self.here.port.network, self.link),
        }
    }

    /// Whom asks are of, for keeps.
    pub(crate) fn whom(&self) -> Whom
        ensures { result ≡ origin_view self.now }
    {
        let link = local_source(self.here.port.network, self.link);
        let source = match self.message {
            Some(message) => message.claim(),
            None => link,
        };
        Whom::new(self.here.port.number, source, link)
    }
}

/// Where what is received comes from: a frame that manages a table, from its sender; a message, from
/// who it claims to come from.
pub(crate) fn origin_of<'a>(received: &'a Received<'a>) -> Option<Origin<'a>>
    ensures { option_map origin_view result ≡ origin_of received.now }
{
    match received {
        Received::Dropped(_) => None,
        Received::Managed(message) => Some(Origin {
            here: message.here,
            link: message.from,
            message: None,
        }),
        Received::Message(message) => Some(Origin {
            here: message.here,
            link: message.link(),
            message: Some(message),
        }),
    }
}

/// Adds the record of what was refused of what is received, counted on from these counts. If nothing was, it takes no
/// memory.
#[inline(always)]
pub(crate) fn add_denials(
    denials: &mut Denials,
    rules: &RuleList,
    counts: Counts,
    received: &Received<'_>,
    refusals: &[Refusal],
) -> Result<(), AllocError>
    requires { counts.denials + 1 + length refusals.now < 2 ^ 64 }
    ensures denials { let from = origin_of received.now in
        let due = denials_of rules.now (counts.denials + 1) counts.ticks from refusals.now in
        OnOk result (denials.new ≡ denials.old ++ due) }
    ensures silent { refusals.now ≡ [] → IsOk result }
{
    if refusals.is_empty() {
        return Ok(());
    }
    add_denials_of(denials, rules, counts, received, refusals)
}

/// Adds the record of what was refused, which is seldom: the room for an origin is made only then.
#[inline(never)]
fn add_denials_of(
    denials: &mut Denials,
    rules: &RuleList,
    counts: Counts,
    received: &Received<'_>,
    refusals: &[Refusal],
) -> Result<(), AllocError>
    requires { counts.denials + 1 + length refusals.now < 2 ^ 64 }
    ensures { let from = origin_of received.now in
        let due = denials_of rules.now (counts.denials + 1) counts.ticks from refusals.now in
        OnOk result (denials.new ≡ denials.old ++ due) }
{
    match origin_of(received) {
        Some(from) => add_denials_from(denials, rules, counts, &from, refusals),
        None => Ok(()),
    }
}

/// Adds the record of refusals, counted on from these counts.
fn add_denials_from(
    denials: &mut Denials,
    rules: &RuleList,
    counts: Counts,
    from: &Origin<'_>,
    refusals: &[Refusal],
) -> Result<(), AllocError>
    requires { counts.denials + 1 + length refusals.now < 2 ^ 64 }
    ensures { let from = origin_view from.now in
        let due = denials_from rules.now (counts.denials + 1) counts.ticks from refusals.now in
        OnOk result (denials.new ≡ denials.old ++ due) }
{
    let first = counts.denials + 1;
    for (place, refusal) in refusals.iter().enumerate() {
        denials.push(Denial {
            number: first + place as u64,
            tick: counts.ticks,
            port: from.here.port.number,
            source: from.source_of(&refusal.ask),
            ask: refusal.ask,
            rule: rule_name(rules, refusal.by),
        })?;
    }
    Ok(())
}
