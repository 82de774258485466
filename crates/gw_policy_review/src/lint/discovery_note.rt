//! The note on rules that let broadcasts by which devices are found pass to some networks alone.
ghost use Rattle.std.specs.Prelude.{◌≡◌, ◌++◌, OnOk};
ghost use Rattle.std.specs.List.{list_any};
ghost use Rattle.gw_policy_review.specs.lint.Notes.{are_from_one, discovers_all, discovers_some, discovery, discovery_note};

use crate::lint::note::put_head;
use crate::lint::text::Lint;
use crate::warnings::{admits_number, holds_number, share};
use gw_rules::{Operation, Range, Rule};
use std::alloc::AllocError;

/// The destination of a broadcast to all networks (clause 6.2.2).
const ALL_NETWORKS: u64 = 65535;

/// I-Am and I-Have, Who-Has and Who-Is (clause 21).
const DISCOVERY: [Range; 2] = [
    Range {
        low: 256,
        high: 257,
    },
    Range {
        low: 263,
        high: 264,
    },
];

fn discovery() -> [Range; 2]
    ensures { result ≡ discovery }
{
    DISCOVERY
}

/// Whether a rule lets broadcasts by which devices are found pass to networks that it names, and all networks aren't among these.
fn discovers_some(rule: &Rule) -> bool
    ensures { result ≡ discovers_some rule.now }
{
    rule.allow
        && holds_number(Operation::Cast.number(), rule.ranges.operation.as_slice())
        && share(&discovery(), rule.ranges.service.as_slice())
        && !admits_number(ALL_NETWORKS, rule.ranges.destination_network.as_slice())
}

/// Whether two rules may match asks from one place.
fn are_from_one(rule: &Rule, other: &Rule) -> bool
    ensures { result ≡ are_from_one rule.now other.now }
{
    let (one, two) = (&rule.ranges, &other.ranges);
    share(one.port.as_slice(), two.port.as_slice())
        && share(one.source_network.as_slice(), two.source_network.as_slice())
        && share(one.source_key.as_slice(), two.source_key.as_slice())
        && share(one.sender.as_slice(), two.sender.as_slice())
}

/// Whether another rule lets some of them pass to all networks.
fn discovers_all(rule: &Rule, other: &Rule) -> bool
    ensures { result ≡ discovers_all rule.now other.now }
{
    other.allow
        && admits_number(Operation::Cast.number(), other.ranges.operation.as_slice())
        && share(
            rule.ranges.service.as_slice(),
            other.ranges.service.as_slice(),
        )
        && admits_number(ALL_NETWORKS, other.ranges.destination_network.as_slice())
        && are_from_one(rule, other)
}

fn is_discovered(rules: &[Rule], rule: &Rule) -> bool
    ensures { result ≡ list_any (discovers_all rule.now) rules.now }
{
    rules.iter().any(|other| discovers_all(rule, other))
}

/// Appends a note if the rule of this number lets such broadcasts pass to networks that it names, and none to all networks.
pub(crate) fn put_discovery_note(
    out: &mut Vec<u8>,
    lint: &Lint<'_>,
    number: u16,
    rule: &Rule,
) -> Result<(), AllocError>
    ensures { OnOk result
        (out.new.items ≡ out.old.items ++ discovery_note lint.now.config.now lint.now.lines.now number rule.now) }
{
    if !discovers_some(rule) || is_discovered(lint.config.rules().rules(), rule) {
        return Ok(());
    }
    put_head(out, lint, number)?;
    out.extend_from_slice(
        b"destination: no rule lets these broadcasts pass to all networks (65535)\n",
    )
}
