//! The text of metrics.

ghost use Rattle.std.specs.Prelude.{◌≡◌, ◌++◌, ◌+◌, [], ◌∷◌, length, codes, decimal, Some, IfOk, OnErr, OnOk};
ghost use Rattle.std.specs.List.{flat_map};
ghost use Rattle.gw_script.specs.Order.{in_order};
ghost use Rattle.gw_notices.specs.metrics.Family.{families};
ghost use Rattle.gw_notices.specs.metrics.Text.{Count, Help, KindOf, build_samples, configuration_samples, decided_samples};
ghost use Rattle.gw_notices.specs.metrics.Text.{decision_samples, drop_samples, family_lines, family_text, full_line, kept_samples};
ghost use Rattle.gw_notices.specs.metrics.Text.{labelled, label_text, lines_text, lost_samples, metrics_text, number_if, plain, port_line};
ghost use Rattle.gw_notices.specs.metrics.Text.{port_number, port_samples, reload_samples, rule_line, single, unkept_samples};

use crate::checksum::Checksum;
use crate::metrics::counts::{Drops, GatewayCounts, PortCounts, Reloads, StateTries};
use crate::metrics::escape::put_escaped;
use crate::metrics::family::{Family, SampleLabel};
use gw_addr::{keep_whole, put_decimal, put_slice};
use gw_decisions::tally::Tally;
use gw_rules::{Rule, RuleList};
use itoa::Buffer;
use std::alloc::{AllocError, Global};

/// The version of the program.
const VERSION: &str = "0.1.0";

/// Appends the text of metrics: of each family in order what it is, its kind, and its samples.
///
/// ```text
/// # HELP bacgw_decisions_total Asks that each rule decided, and those that none did (default), since the start or the last reload.
/// # TYPE bacgw_decisions_total counter
/// bacgw_decisions_total{rule="default"} 3
/// bacgw_decisions_total{rule="hide"} 12
/// ```
///
/// A family that isn't counted is left out. An `Err` only if a growth of memory was refused: the buffer then holds what it
/// held.
pub fn put_metrics(
    alloc: Global,
    counts: &GatewayCounts<'_>,
    out: &mut Vec<u8>,
) -> Result<(), AllocError>
    ensures ok { OnOk result (out.new.items ≡ out.old.items ++ metrics_text counts.now) }
    ensures err { OnErr result (out.new.items ≡ out.old.items) }
{
    let text = make_text(alloc, counts)?;
    let len = out.len();
    let put = put_slice(out, &text);
    keep_whole(out, len, put)
}

/// The text of all families.
fn make_text(alloc: Global, counts: &GatewayCounts<'_>) -> Result<Vec<u8>, AllocError>
    ensures { IfOk result (λ text. text.items ≡ metrics_text counts.now) }
{
    let mut text = Vec::new(alloc);
    put_families(alloc, &Family::ALL, counts, &mut text)?;
    Ok(text)
}

fn put_families(
    alloc: Global,
    families: &[Family],
    counts: &GatewayCounts<'_>,
    out: &mut Vec<u8>,
) -> Result<(), AllocError>
    ensures { OnOk result (out.new.items ≡ out.old.items ++ flat_map (family_text counts.now) families.now) }
{
    for family in families {
        put_family(alloc, *family, counts, out)?;
    }
    Ok(())
}

/// Appends the lines of a family, if it is counted.
fn put_family(
    alloc: Global,
    family: Family,
    counts: &GatewayCounts<'_>,
    out: &mut Vec<u8>,
) -> Result<(), AllocError>
    ensures { OnOk result (out.new.items ≡ out.old.items ++ family_text counts.now family) }
{
    match family {
        Family::Build => put_build(out),
        Family::Ticks => put_single(family, u128::from(counts.ticks), out),
        Family::Received => put_single(family, u128::from(counts.received), out),
        Family::Taken => put_single(family, u128::from(counts.taken), out),
        Family::Drops => put_drops(counts.drops, out),
        Family::Sends => put_single(family, counts.sends, out),
        Family::SendFailures => put_single(family, counts.send_failures, out),
        Family::Announcements => put_single(family, counts.announcements, out),
        Family::AnnouncementFailures => put_single(family, counts.announcement_failures, out),
        Family::ReceiveFailures => put_single(family, u128::from(counts.receive_failures), out),
        Family::Denials => put_single(family, u128::from(counts.denials), out),
        Family::Decisions => put_decisions(counts.rules, counts.decisions, out),
        Family::Unwatched => put_single(family, u128::from(counts.unwatched), out),
        Family::PortDatagrams => put_by_port(family, counts.ports, out),
        Family::PortDrops => put_by_port(family, counts.ports, out),
        Family::PortSends => put_by_port(family, counts.ports, out),
        Family::PortSendFailures => put_by_port(family, counts.ports, out),
        Family::ForeignDevices => put_by_port(family, counts.ports, out),
        Family::Peers => put_single(family, u128::from(counts.peers), out),
        Family::LearnedRoutes => put_single(family, u128::from(counts.learned_routes), out),
        Family::Reloads => put_reloads(counts.reloads, out),
        Family::Configuration => put_configuration(alloc, counts.checksum, out),
        Family::ConfigurationAge => {
            put_single(family, u128::from(counts.configuration_age), out)
        }
        Family::StateIsKept => put_is_kept(counts.state, out),
        Family::UnkeptStates => put_unkept(counts.state, out),
        Family::LostLines => put_lost_lines(counts.lost_trial_lines, counts.lost_audit_lines, out),
        Family::LostMetrics => put_single(family, u128::from(counts.lost_metrics), out),
    }
}

/// Appends what a family is, and its kind.
fn put_head(family: Family, out: &mut Vec<u8>) -> Result<(), AllocError>
    ensures { OnOk result (out.new.items ≡ out.old.items ++ lines_text (Help family ∷ KindOf family ∷ [])) }
{
    put_help(family, out)?;
    put_kind(family, out)
}

#[tactic(auto, unfolding(crate::specs::metrics::Text::full_line))]
fn put_help(family: Family, out: &mut Vec<u8>) -> Result<(), AllocError>
    ensures { OnOk result (out.new.items ≡ out.old.items ++ full_line (Help family)) }
{
    put_slice(out, b"# HELP ")?;
    put_slice(out, family.name().as_bytes())?;
    put_slice(out, b" ")?;
    put_slice(out, family.help().as_bytes())?;
    put_slice(out, b"\n")
}

#[tactic(auto, unfolding(crate::specs::metrics::Text::full_line))]
fn put_kind(family: Family, out: &mut Vec<u8>) -> Result<(), AllocError>
    ensures { OnOk result (out.new.items ≡ out.old.items ++ full_line (KindOf family)) }
{
    put_slice(out, b"# TYPE ")?;
    put_slice(out, family.name().as_bytes())?;
    put_slice(out, b" ")?;
    put_slice(out, family.kind().name().as_bytes())?;
    put_slice(out, b"\n")
}

/// Appends a number, with what comes before it, and ends the line.
fn put_number(number: u128, out: &mut Vec<u8>) -> Result<(), AllocError>
    ensures { OnOk result (out.new.items ≡ out.old.items ++ codes " " ++ decimal number ++ codes "\n") }
{
    put_slice(out, b" ")?;
    put_decimal(out, number)?;
    put_slice(out, b"\n")
}

/// Appends a sample that has no label.
#[tactic(auto, unfolding(crate::specs::metrics::Text::full_line))]
fn put_plain(family: Family, number: u128, out: &mut Vec<u8>) -> Result<(), AllocError>
    ensures { OnOk result (out.new.items ≡ out.old.items ++ full_line (Count family (plain number))) }
{
    put_slice(out, family.name().as_bytes())?;
    put_number(number, out)
}

/// Appends a label and its value.
fn put_label(label: SampleLabel, value: &[u8], out: &mut Vec<u8>) -> Result<(), AllocError>
    ensures { OnOk result (out.new.items ≡ out.old.items ++ label_text (Some (record { label = label; value = value.now }))) }
{
    put_slice(out, b"{")?;
    put_slice(out, label.name().as_bytes())?;
    put_slice(out, b"=\"")?;
    put_escaped(out, value)?;
    put_slice(out, b"\"}")
}

/// Appends a sample that has a label of this value.
#[tactic(auto, unfolding(crate::specs::metrics::Text::full_line))]
fn put_labelled(
    family: Family,
    label: SampleLabel,
    value: &[u8],
    number: u128,
    out: &mut Vec<u8>,
) -> Result<(), AllocError>
    ensures { OnOk result (out.new.items ≡ out.old.items ++ full_line (Count family (labelled label value.now number))) }
{
    put_slice(out, family.name().as_bytes())?;
    put_label(label, value, out)?;
    put_number(number, out)
}

/// Appends a sample that counts what has a label of this value.
fn put_counted(
    family: Family,
    label: SampleLabel,
    value: &str,
    number: u64,
    out: &mut Vec<u8>,
) -> Result<(), AllocError>
    ensures { OnOk result (out.new.items ≡ out.old.items ++ full_line (Count family (labelled label value.now number))) }
{
    put_labelled(family, label, value.as_bytes(), u128::from(number), out)
}

/// Appends a family that has one sample.
fn put_single(family: Family, number: u128, out: &mut Vec<u8>) -> Result<(), AllocError>
    ensures { OnOk result (out.new.items ≡ out.old.items ++ lines_text (family_lines family (single number))) }
{
    put_head(family, out)?;
    put_plain(family, number, out)
}

fn put_build(out: &mut Vec<u8>) -> Result<(), AllocError>
    ensures { OnOk result (out.new.items ≡ out.old.items ++ lines_text (family_lines Family.Build (Some build_samples))) }
{
    put_head(Family::Build, out)?;
    put_labelled(
        Family::Build,
        SampleLabel::Version,
        VERSION.as_bytes(),
        1,
        out,
    )
}

fn put_drops(drops: Drops, out: &mut Vec<u8>) -> Result<(), AllocError>
    ensures { OnOk result (out.new.items ≡ out.old.items ++ lines_text (family_lines Family.Drops (Some (drop_samples drops)))) }
{
    let (family, label) = (Family::Drops, SampleLabel::Reason);
    put_head(family, out)?;
    put_counted(family, label, "enter", drops.enter, out)?;
    put_counted(family, label, "claim", drops.claim, out)?;
    put_counted(family, label, "malformed", drops.malformed, out)?;
    put_counted(family, label, "own_network", drops.own_network, out)?;
    put_counted(family, label, "no_peer", drops.no_peer, out)?;
    put_counted(family, label, "memory", drops.memory, out)
}

/// Appends how many asks each rule decided, if they are counted for these rules.
fn put_decisions(
    rules: &RuleList,
    decisions: &Option<Tally>,
    out: &mut Vec<u8>,
) -> Result<(), AllocError>
    ensures { OnOk result (out.new.items ≡ out.old.items
        ++ lines_text (family_lines Family.Decisions (decided_samples rules.now decisions.now))) }
{
    match decisions {
        Some(counts) if counts.is_of(rules) => put_decided(rules.rules(), counts, out),
        _ => Ok(()),
    }
}

fn put_decided(rules: &[Rule], counts: &Tally, out: &mut Vec<u8>) -> Result<(), AllocError>
    requires { length counts.now ≡ length rules.now + 1 }
    ensures { OnOk result (out.new.items ≡ out.old.items
        ++ lines_text (family_lines Family.Decisions (Some (decision_samples rules.now counts.now)))) }
{
    put_head(Family::Decisions, out)?;
    put_counted(
        Family::Decisions,
        SampleLabel::Rule,
        "default",
        counts.count(0),
        out,
    )?;
    put_rules(rules, counts, out)
}

fn put_rules(rules: &[Rule], counts: &Tally, out: &mut Vec<u8>) -> Result<(), AllocError>
    requires { length counts.now ≡ length rules.now + 1 }
    ensures { OnOk result (out.new.items ≡ out.old.items ++ in_order (rule_line counts.now) 1 rules.now) }
{
    for place in 0..rules.len() {
        let name = rules[place].name.as_str();
        let count = counts.count(place + 1);
        put_counted(Family::Decisions, SampleLabel::Rule, name, count, out)?;
    }
    Ok(())
}

/// Appends a family that counts by port.
fn put_by_port(family: Family, ports: &[PortCounts], out: &mut Vec<u8>) -> Result<(), AllocError>
    ensures { OnOk result (out.new.items ≡ out.old.items ++ lines_text (family_lines family (port_samples family ports.now))) }
{
    put_head(family, out)?;
    put_ports(family, ports, out)
}

fn put_ports(family: Family, ports: &[PortCounts], out: &mut Vec<u8>) -> Result<(), AllocError>
    ensures { OnOk result (out.new.items ≡ out.old.items ++ in_order (port_line family) 1 ports.now) }
{
    for place in 0..ports.len() {
        put_port(family, place + 1, ports[place], out)?;
    }
    Ok(())
}

/// What a family counts of a port.
fn port_number(family: Family, port: PortCounts) -> u64
    ensures { result ≡ port_number family port }
{
    match family {
        Family::PortDatagrams => port.datagrams,
        Family::PortDrops => port.drops,
        Family::PortSends => port.sends,
        Family::PortSendFailures => port.send_failures,
        _ => port.foreign_devices,
    }
}

fn put_port(
    family: Family,
    number: usize,
    port: PortCounts,
    out: &mut Vec<u8>,
) -> Result<(), AllocError>
    ensures { OnOk result (out.new.items ≡ out.old.items ++ port_line family number port) }
{
    put_labelled(
        family,
        SampleLabel::Port,
        Buffer::new().format(number).as_bytes(),
        u128::from(port_number(family, port)),
        out,
    )
}

fn put_reloads(reloads: Reloads, out: &mut Vec<u8>) -> Result<(), AllocError>
    ensures { OnOk result (out.new.items ≡ out.old.items
        ++ lines_text (family_lines Family.Reloads (Some (reload_samples reloads)))) }
{
    let (family, label) = (Family::Reloads, SampleLabel::Outcome);
    put_head(family, out)?;
    put_counted(family, label, "taken_over", reloads.taken_over, out)?;
    put_counted(family, label, "refused", reloads.refused, out)
}

/// Appends the digits of a checksum, as the label of a 1.
fn put_configuration(alloc: Global, checksum: Checksum, out: &mut Vec<u8>) -> Result<(), AllocError>
    ensures { OnOk result (out.new.items ≡ out.old.items
        ++ lines_text (family_lines Family.Configuration (Some (configuration_samples checksum)))) }
{
    let digits = hex::encode(alloc, checksum.octets)?;
    put_head(Family::Configuration, out)?;
    put_labelled(
        Family::Configuration,
        SampleLabel::Sha256,
        digits.as_bytes(),
        1,
        out,
    )
}

fn number_if(is: bool) -> u128
    ensures { result ≡ number_if is }
{
    if is { 1 } else { 0 }
}

fn put_is_kept(state: Option<StateTries>, out: &mut Vec<u8>) -> Result<(), AllocError>
    ensures { OnOk result (out.new.items ≡ out.old.items ++ lines_text (family_lines Family.StateIsKept (kept_samples state))) }
{
    match state {
        Some(tries) => put_single(Family::StateIsKept, number_if(tries.is_kept), out),
        None => Ok(()),
    }
}

fn put_unkept(state: Option<StateTries>, out: &mut Vec<u8>) -> Result<(), AllocError>
    ensures { OnOk result (out.new.items ≡ out.old.items ++ lines_text (family_lines Family.UnkeptStates (unkept_samples state))) }
{
    match state {
        Some(tries) => put_single(Family::UnkeptStates, u128::from(tries.unkept), out),
        None => Ok(()),
    }
}

fn put_lost_lines(trial: u64, audit: u64, out: &mut Vec<u8>) -> Result<(), AllocError>
    ensures { OnOk result (out.new.items ≡ out.old.items
        ++ lines_text (family_lines Family.LostLines (Some (lost_samples trial audit)))) }
{
    let (family, label) = (Family::LostLines, SampleLabel::Log);
    put_head(family, out)?;
    put_counted(family, label, "trial", trial, out)?;
    put_counted(family, label, "audit", audit, out)
}
