//! A report of serving: what was done so far and what the tables hold, and its line.

ghost use Rattle.std.specs.Prelude.{◌≡◌, ◌+◌, ◌≤◌, ◌++◌, decimal, length, IsOk, IsTrue, OnOk};
ghost use Rattle.std.specs.Io.KnownBytes.{Appends};
ghost use Rattle.gw_addr.specs.Address.{text_of};
ghost use Rattle.gw_addr.specs.declared.TheConstants.{MAX_PORTS};
ghost use Rattle.gw_tables.specs.bdt_fdt.Peers.{peers};
ghost use Rattle.gw_tables.specs.declared.bdt_fdt.bdt.TheConstants.{MAX_ENTRIES};
ghost use Rattle.gw_turns.specs.Reports.{HasGoneOn, announced_text, announcing_line, announcing_text, calls_text, culprit_line};
ghost use Rattle.gw_turns.specs.Reports.{culprit_text, culprits_text, drops_text, events_text, failing_line, field, fresh, has_gone_on};
ghost use Rattle.gw_turns.specs.Reports.{health_text, healths_text, peer_count, port_line, ports_text, refusals_text, registrations};
ghost use Rattle.gw_turns.specs.Reports.{report_line, report_of, restored_line, shown, tables_text, tally_text};

use crate::announcing::Announcing;
use crate::ports::{Health, PortSends, PortTally};
use crate::serving::Served;
use crate::tally::{Culprit, DropTally};
use gw_addr::{BipAddr, MAX_PORTS};
use gw_core::{Counts, Gateway};
use gw_relay::PortState;
use gw_script::{OctetSink, WriteFailed, write_whole};
use itoa::Buffer;

/// What is reported of serving at a moment. What was done is counted from its beginning on.
#[derive(Clone, Copy)]
pub struct Report {
    /// How many seconds, which are the ticks that were taken.
    pub seconds: u64,
    /// How many datagrams the gateway took.
    pub datagrams: u64,
    /// How many events weren't taken, since a growth was refused.
    pub memory_drops: u64,
    /// How many asks were denied.
    pub denials: u64,
    /// How many sends succeeded.
    pub sends: u128,
    /// How many sends failed.
    pub send_failures: u128,
    /// How many receives failed.
    pub receive_failures: u64,
    /// How many foreign devices are registered, at all ports.
    pub registrations: u64,
    /// How many peers all ports have.
    pub peers: u64,
    /// How many networks have a learned route.
    pub learned_routes: u64,
    /// How many datagrams weren't passed on, and how many came to each port.
    pub tally: DropTally,
    /// How many ports the gateway has.
    pub port_count: usize,
    /// What came of the sends on each port.
    pub ports: [PortSends; MAX_PORTS],
}

/// How many foreign devices are registered at the ports.
fn registrations(ports: &[PortState]) -> u64
    requires few { length ports.now ≤ MAX_PORTS }
    ensures { result ≡ registrations ports.now }
{
    let mut count = 0;
    for state in ports {
        count += state.fdt.count() as u64;
    }
    count
}

/// How many peers a port has.
fn peers_of(state: &PortState) -> usize
    ensures count { result ≡ length (peers state.now.port.address state.now.bdt) }
    ensures few { result ≤ MAX_ENTRIES }
{
    let own = state.port.address;
    let entries = state.bdt.entries();
    entries.iter().filter(|entry| own != entry.address).count()
}

/// How many peers the ports have.
fn peer_count(ports: &[PortState]) -> u64
    requires few { length ports.now ≤ MAX_PORTS }
    ensures { result ≡ peer_count ports.now }
{
    let mut count = 0;
    for state in ports {
        count += peers_of(state) as u64;
    }
    count
}

/// Whether a gateway's counts didn't fall since it began with these, and each tick is an event that was taken. It is always so
/// while it is served.
pub fn has_gone_on(start: Counts, gateway: &Gateway, served: &Served) -> bool
    ensures is { result ≡ has_gone_on start gateway.now served.now }
    ensures means { IsTrue result → HasGoneOn start gateway.now served.now }
{
    let now = gateway.counts();
    start.ticks <= now.ticks
        && start.denials <= now.denials
        && now.ticks - start.ticks <= served.taken
}

/// What is reported of a gateway that began with these counts, when so much was done.
pub fn report_of(start: Counts, gateway: &Gateway, served: &Served, tally: DropTally) -> Report
    requires since { HasGoneOn start gateway.now served.now }
    ensures report { result ≡ report_of start gateway.now served.now tally }
    ensures few { result.port_count ≤ MAX_PORTS }
{
    let counts = gateway.counts();
    let relay = gateway.relay();
    let seconds = counts.ticks - start.ticks;
    Report {
        seconds,
        datagrams: served.taken - seconds,
        memory_drops: served.memory_drops,
        denials: counts.denials - start.denials,
        sends: served.sends,
        send_failures: served.send_failures,
        receive_failures: served.recv_failures,
        registrations: registrations(relay.ports()),
        peers: peer_count(relay.ports()),
        learned_routes: relay.routes().learned_count() as u64,
        tally,
        port_count: relay.ports().len(),
        ports: served.ports,
    }
}

/// Writes a field: its name, as written before the number, and the number.
fn write_field<S: OctetSink>(name: &str, number: u128, sink: &mut S) -> Result<(), WriteFailed>
    ensures ok { OnOk result (Appends (S.held sink.old) (S.held sink.new) (field name.now number)) }
    ensures sure { S.NeverFails sink.old → IsOk result }
    ensures lasts { S.NeverFails sink.old → S.NeverFails sink.new }
{
    write_whole(sink, name.as_bytes())?;
    write_whole(sink, Buffer::new().format(number).as_bytes())
}

/// Writes in how many seconds how many datagrams were taken, events dropped and asks denied.
fn write_events<S: OctetSink>(report: &Report, sink: &mut S) -> Result<(), WriteFailed>
    ensures ok { OnOk result
        (Appends (S.held sink.old) (S.held sink.new) (events_text report.now)) }
    ensures sure { S.NeverFails sink.old → IsOk result }
    ensures lasts { S.NeverFails sink.old → S.NeverFails sink.new }
{
    write_field("stats seconds=", report.seconds as u128, sink)?;
    write_field(" datagrams=", report.datagrams as u128, sink)?;
    write_field(" memory_drops=", report.memory_drops as u128, sink)?;
    write_field(" denials=", report.denials as u128, sink)
}

/// Writes how many sends succeeded and failed, and how many receives failed.
fn write_calls<S: OctetSink>(report: &Report, sink: &mut S) -> Result<(), WriteFailed>
    ensures ok { OnOk result (Appends (S.held sink.old) (S.held sink.new) (calls_text report.now)) }
    ensures sure { S.NeverFails sink.old → IsOk result }
    ensures lasts { S.NeverFails sink.old → S.NeverFails sink.new }
{
    write_field(" sends=", report.sends, sink)?;
    write_field(" send_failures=", report.send_failures, sink)?;
    write_field(" receive_failures=", report.receive_failures as u128, sink)
}

/// Writes what the tables hold.
fn write_tables<S: OctetSink>(report: &Report, sink: &mut S) -> Result<(), WriteFailed>
    ensures ok { OnOk result
        (Appends (S.held sink.old) (S.held sink.new) (tables_text report.now)) }
    ensures sure { S.NeverFails sink.old → IsOk result }
    ensures lasts { S.NeverFails sink.old → S.NeverFails sink.new }
{
    write_field(" registrations=", report.registrations as u128, sink)?;
    write_field(" peers=", report.peers as u128, sink)?;
    write_field(" learned_routes=", report.learned_routes as u128, sink)
}

/// Writes how many datagrams the policy kept out.
fn write_refusals<S: OctetSink>(tally: &DropTally, sink: &mut S) -> Result<(), WriteFailed>
    ensures ok { OnOk result
        (Appends (S.held sink.old) (S.held sink.new) (refusals_text tally.now)) }
    ensures sure { S.NeverFails sink.old → IsOk result }
    ensures lasts { S.NeverFails sink.old → S.NeverFails sink.new }
{
    write_field(" enter_refusals=", tally.enter as u128, sink)?;
    write_field(" claim_refusals=", tally.claim as u128, sink)
}

/// Writes how many datagrams were dropped before the policy was asked.
fn write_drops<S: OctetSink>(tally: &DropTally, sink: &mut S) -> Result<(), WriteFailed>
    ensures ok { OnOk result (Appends (S.held sink.old) (S.held sink.new) (drops_text tally.now)) }
    ensures sure { S.NeverFails sink.old → IsOk result }
    ensures lasts { S.NeverFails sink.old → S.NeverFails sink.new }
{
    write_field(" malformed=", tally.malformed as u128, sink)?;
    write_field(" own_network=", tally.own_network as u128, sink)?;
    write_field(" no_peer=", tally.no_peer as u128, sink)
}

/// Writes how many datagrams weren't passed on, and ends the line.
fn write_tally<S: OctetSink>(tally: &DropTally, sink: &mut S) -> Result<(), WriteFailed>
    ensures ok { OnOk result (Appends (S.held sink.old) (S.held sink.new) (tally_text tally.now)) }
    ensures sure { S.NeverFails sink.old → IsOk result }
    ensures lasts { S.NeverFails sink.old → S.NeverFails sink.new }
{
    write_refusals(tally, sink)?;
    write_drops(tally, sink)?;
    write_whole(sink, b"\n")
}

/// Writes the line of a report.
pub fn write_report<S: OctetSink>(report: &Report, sink: &mut S) -> Result<(), WriteFailed>
    ensures ok { OnOk result
        (Appends (S.held sink.old) (S.held sink.new) (report_line report.now)) }
    ensures sure { S.NeverFails sink.old → IsOk result }
    ensures lasts { S.NeverFails sink.old → S.NeverFails sink.new }
{
    write_events(report, sink)?;
    write_calls(report, sink)?;
    write_tables(report, sink)?;
    write_tally(&report.tally, sink)
}

/// Writes the line of the port of this number: what came to it, and what came of the sends on it.
fn write_port<S: OctetSink>(
    number: usize,
    tally: PortTally,
    sends: PortSends,
    sink: &mut S,
) -> Result<(), WriteFailed>
    ensures ok { OnOk result (Appends (S.held sink.old) (S.held sink.new) (port_line number tally sends)) }
    ensures sure { S.NeverFails sink.old → IsOk result }
    ensures lasts { S.NeverFails sink.old → S.NeverFails sink.new }
{
    write_field("stats port=", number as u128, sink)?;
    write_field(" datagrams=", tally.datagrams as u128, sink)?;
    write_field(" dropped=", tally.drops as u128, sink)?;
    write_field(" sends=", sends.sends as u128, sink)?;
    write_field(" send_failures=", sends.failures as u128, sink)?;
    write_whole(sink, b"\n")
}

/// Writes a line for each port of the gateway, in order.
pub fn write_ports<S: OctetSink>(report: &Report, sink: &mut S) -> Result<(), WriteFailed>
    requires few { report.now.port_count ≤ MAX_PORTS }
    ensures ok { OnOk result (Appends (S.held sink.old) (S.held sink.new) (ports_text report.now)) }
    ensures sure { S.NeverFails sink.old → IsOk result }
    ensures lasts { S.NeverFails sink.old → S.NeverFails sink.new }
{
    for place in 0..report.port_count {
        let sends = report.ports[place];
        write_port(place + 1, report.tally.ports[place], sends, sink)?;
    }
    Ok(())
}

/// Writes an address.
fn write_address<S: OctetSink>(address: BipAddr, sink: &mut S) -> Result<(), WriteFailed>
    ensures ok { OnOk result (Appends (S.held sink.old) (S.held sink.new) (text_of address)) }
    ensures sure { S.NeverFails sink.old → IsOk result }
    ensures lasts { S.NeverFails sink.old → S.NeverFails sink.new }
{
    write_field("", address.ip[0] as u128, sink)?;
    write_field(".", address.ip[1] as u128, sink)?;
    write_field(".", address.ip[2] as u128, sink)?;
    write_field(".", address.ip[3] as u128, sink)?;
    write_field(":", address.udp as u128, sink)
}

/// Writes the line of the last datagram that was dropped for a reason, of so many.
fn write_culprit_line<S: OctetSink>(
    reason: &str,
    count: u64,
    culprit: Culprit,
    sink: &mut S,
) -> Result<(), WriteFailed>
    ensures ok { OnOk result (Appends (S.held sink.old) (S.held sink.new) (culprit_line reason.now count culprit)) }
    ensures sure { S.NeverFails sink.old → IsOk result }
    ensures lasts { S.NeverFails sink.old → S.NeverFails sink.new }
{
    write_field("dropped: ", count as u128, sink)?;
    write_whole(sink, reason.as_bytes())?;
    write_address(culprit.sender, sink)?;
    write_field(" on port ", culprit.port as u128, sink)?;
    write_whole(sink, b"\n")
}

/// Writes that line, if there is such a datagram.
fn write_culprit<S: OctetSink>(
    reason: &str,
    count: u64,
    culprit: Option<Culprit>,
    sink: &mut S,
) -> Result<(), WriteFailed>
    ensures ok { OnOk result (Appends (S.held sink.old) (S.held sink.new) (culprit_text reason.now count culprit)) }
    ensures sure { S.NeverFails sink.old → IsOk result }
    ensures lasts { S.NeverFails sink.old → S.NeverFails sink.new }
{
    match culprit {
        Some(culprit) => write_culprit_line(reason, count, culprit, sink),
        None => Ok(()),
    }
}

/// A datagram that was dropped, if it came in the last so many seconds, or whenever it did.
fn fresh(seconds: Option<u64>, now: u64, culprit: Option<Culprit>) -> Option<Culprit>
    ensures { result ≡ fresh seconds now culprit }
{
    match (seconds, culprit) {
        (Some(seconds), Some(culprit)) if now.saturating_sub(culprit.tick) > seconds => None,
        _ => culprit,
    }
}

/// Writes, for each reason for which a datagram was dropped in the last so many seconds, or ever, how many were so far, and whom
/// the last one came from.
pub fn write_culprits<S: OctetSink>(
    seconds: Option<u64>,
    now: u64,
    tally: &DropTally,
    sink: &mut S,
) -> Result<(), WriteFailed>
    ensures ok { OnOk result (Appends (S.held sink.old) (S.held sink.new) (culprits_text seconds now tally.now)) }
    ensures sure { S.NeverFails sink.old → IsOk result }
    ensures lasts { S.NeverFails sink.old → S.NeverFails sink.new }
{
    let last = tally.last;
    let malformed = fresh(seconds, now, last.malformed);
    write_culprit(" malformed, last from ", tally.malformed, malformed, sink)?;
    let own_network = fresh(seconds, now, last.own_network);
    write_culprit(
        " of own network, last from ",
        tally.own_network,
        own_network,
        sink,
    )?;
    let no_peer = fresh(seconds, now, last.no_peer);
    write_culprit(" of no peer, last from ", tally.no_peer, no_peer, sink)
}

/// How the sends on a port go, as far as that is reported: that the last one failed, if that was in the last so many seconds, and that
/// they succeed again, if they do so since then; of all time, that the last one failed.
fn shown(seconds: Option<u64>, now: u64, health: Health) -> Health
    ensures { result ≡ shown seconds now health }
{
    match health {
        Health::Sound => Health::Sound,
        Health::Failing(last) => match seconds {
            Some(seconds) if now.saturating_sub(last) > seconds => Health::Sound,
            _ => Health::Failing(last),
        },
        Health::Restored(since) => match seconds {
            Some(seconds) if now.saturating_sub(since) <= seconds => Health::Restored(since),
            _ => Health::Sound,
        },
    }
}

/// Writes that sends on the port of this number fail.
fn write_failing<S: OctetSink>(number: usize, sink: &mut S) -> Result<(), WriteFailed>
    ensures ok { OnOk result (Appends (S.held sink.old) (S.held sink.new) (failing_line number)) }
    ensures sure { S.NeverFails sink.old → IsOk result }
    ensures lasts { S.NeverFails sink.old → S.NeverFails sink.new }
{
    write_field("port ", number as u128, sink)?;
    write_whole(sink, b": sends fail\n")
}

/// Writes that sends on the port of this number succeed again.
fn write_restored<S: OctetSink>(number: usize, sink: &mut S) -> Result<(), WriteFailed>
    ensures ok { OnOk result (Appends (S.held sink.old) (S.held sink.new) (restored_line number)) }
    ensures sure { S.NeverFails sink.old → IsOk result }
    ensures lasts { S.NeverFails sink.old → S.NeverFails sink.new }
{
    write_field("port ", number as u128, sink)?;
    write_whole(sink, b": sends succeed again\n")
}

/// Writes how the sends on the port of this number go, unless none failed.
fn write_health<S: OctetSink>(
    number: usize,
    health: Health,
    sink: &mut S,
) -> Result<(), WriteFailed>
    ensures ok { OnOk result (Appends (S.held sink.old) (S.held sink.new) (health_text number health)) }
    ensures sure { S.NeverFails sink.old → IsOk result }
    ensures lasts { S.NeverFails sink.old → S.NeverFails sink.new }
{
    match health {
        Health::Sound => Ok(()),
        Health::Failing(_) => write_failing(number, sink),
        Health::Restored(_) => write_restored(number, sink),
    }
}

/// Writes, for each port in order, that sends on it fail, if the last one failed in the last so many seconds, or that they succeed again,
/// if they do so since then; of all time, that the last one failed.
pub fn write_healths<S: OctetSink>(
    seconds: Option<u64>,
    gateway: &Gateway,
    served: &Served,
    sink: &mut S,
) -> Result<(), WriteFailed>
    ensures ok { OnOk result (Appends (S.held sink.old) (S.held sink.new) (healths_text seconds gateway.now served.now)) }
    ensures sure { S.NeverFails sink.old → IsOk result }
    ensures lasts { S.NeverFails sink.old → S.NeverFails sink.new }
{
    for place in 0..gateway.relay().ports().len() {
        let sends = served.ports[place];
        let health = shown(seconds, served.ticks, sends.health);
        write_health(place + 1, health, sink)?;
    }
    Ok(())
}

/// Writes how many sends of announcements succeeded and failed.
fn write_announced<S: OctetSink>(announcing: Announcing, sink: &mut S) -> Result<(), WriteFailed>
    ensures ok { OnOk result
        (Appends (S.held sink.old) (S.held sink.new) (announced_text announcing)) }
    ensures sure { S.NeverFails sink.old → IsOk result }
    ensures lasts { S.NeverFails sink.old → S.NeverFails sink.new }
{
    write_field("stats announcements=", announcing.sends, sink)?;
    write_field(" announcement_failures=", announcing.send_failures, sink)
}

/// Writes the same, and ends the line.
fn write_announcing_line<S: OctetSink>(
    announcing: Announcing,
    sink: &mut S,
) -> Result<(), WriteFailed>
    ensures ok { OnOk result
        (Appends (S.held sink.old) (S.held sink.new) (announcing_line announcing)) }
    ensures sure { S.NeverFails sink.old → IsOk result }
    ensures lasts { S.NeverFails sink.old → S.NeverFails sink.new }
{
    write_announced(announcing, sink)?;
    write_whole(sink, b"\n")
}

/// Writes how many sends of announcements succeeded and failed, if any was tried.
pub fn write_announcing<S: OctetSink>(
    announcing: Announcing,
    sink: &mut S,
) -> Result<(), WriteFailed>
    ensures ok { OnOk result (Appends (S.held sink.old) (S.held sink.new) (announcing_text announcing)) }
    ensures sure { S.NeverFails sink.old → IsOk result }
    ensures lasts { S.NeverFails sink.old → S.NeverFails sink.new }
{
    if announcing.sends == 0 && announcing.send_failures == 0 {
        return Ok(());
    }
    write_announcing_line(announcing, sink)
}
