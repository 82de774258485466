//! Questions of one datagram, to which no station has to answer: a Who-Is, and a registration of a foreign device.

ghost use Rattle.std.specs.Prelude.{◌≡◌, ◌<◌, ◌++◌, option_map, IfOk, OnOk};
ghost use Rattle.std.specs.List.{list_any};
ghost use Rattle.gw_frames.specs.npdu.Npdu as npdus;
ghost use Rattle.gw_verdicts.specs.questions.Calls.{accepts, batch_accepts, batch_hears, hears, IsAudienceIn, IsCallAnswer};
ghost use Rattle.gw_verdicts.specs.questions.Calls.{IsRegistrationOf, IsWhoIsOf, all_hear, asker_of, audience_at, audience_of, call_octets};
ghost use Rattle.gw_verdicts.specs.questions.Calls.{call_text, end_text, is_done, is_heard, may_call, port_of_network, registration_by};
ghost use Rattle.gw_verdicts.specs.questions.Calls.{who_is_from, who_is_octets, who_is_to, why_of};

use crate::questions::answer::{QuestionAnswer, event_of, outcome_of, put_no, reaches};
use crate::questions::datagram::{carried, datagram_of, framed, source_of};
use crate::questions::fault::{PlaceFault, Unasked};
use crate::questions::place::{Station, network_in, place_on, route_to, station_of};
use crate::questions::step::{put_way, take};
use gw_addr::{NetNum, put_slice};
use gw_configuration::Config;
use gw_core::{AllAsked, Batch, Counts, Gateway, Reported, Sends};
use gw_frames::bvll::Bvll;
use gw_frames::npdu::{Destination, Npdu, Payload, Priority};
use gw_rules::RuleList;
use std::alloc::{AllocError, Global};

/// A Who-Is without limits (clauses 16.10 and 20.1.3).
const WHO_IS: [u8; 2] = [0x10, 8];

/// The network of a broadcast to each (clause 6.2.2).
const ALL_NETWORKS: u16 = 65535;

/// For how many seconds a foreign device registers.
const TIME_TO_LIVE: u16 = 60;

/// A BVLC-Result that says that it is done (Annex J.2.1).
const SUCCESS: [u8; 6] = [0x81, 0x00, 0x00, 0x06, 0x00, 0x00];

/// A question of one datagram.
#[derive(Clone, Copy)]
pub enum Call {
    /// Whether these hear the Who-Is of a station.
    WhoIs(Station, Audience),
    /// Whether a station may register as a foreign device.
    Registration(Station),
}

/// Whose stations hear a broadcast.
#[derive(Clone, Copy)]
pub enum Audience {
    /// Those of the networks of all ports, so many, but of that by which it comes.
    All(u8),
    /// Those of this network, to which this port leads. To the gateway's own device it is that of who asks, by which the device
    /// answers.
    Network(NetNum, u8),
}

/// Whether a message goes to somebody by this port.
fn batch_hears(port: u8, batch: &Batch) -> bool
    ensures { result ≡ batch_hears port batch.now }
{
    match batch.targets() {
        [_, ..] => batch.port() == port,
        [] => false,
    }
}

fn any_hears(port: u8, batches: &[Batch]) -> bool
    ensures { result ≡ list_any (batch_hears port) batches.now }
{
    batches.iter().any(|batch| batch_hears(port, batch))
}

/// Whether a datagram is sent by this port.
fn hears(port: u8, sends: &Sends) -> bool
    ensures { result ≡ hears port sends.now }
{
    any_hears(port, sends.batches())
}

/// Whether one is sent by each port up to this one, but that of who asks.
#[tactic(auto, using(crate::proofs::questions_lemmas::Heard::one_more, crate::proofs::questions_lemmas::Heard::none_left))]
fn all_hear(port: u8, asker: u8, sends: &Sends) -> bool
    ensures { result ≡ all_hear port asker sends.now }
{
    if port == 0 {
        return true;
    }
    let is_heard = port == asker || hears(port, sends);
    is_heard && all_hear(port - 1, asker, sends)
}

/// Whether those who are meant hear a broadcast.
fn is_heard(asker: &Station, audience: Audience, sends: &Sends) -> bool
    ensures { result ≡ is_heard asker.now audience sends.now }
{
    match audience {
        Audience::All(ports) => all_hear(ports, asker.port, sends),
        Audience::Network(_, port) => hears(port, sends),
    }
}

/// Whether a message to somebody says that a registration is done.
fn batch_accepts(batch: &Batch) -> bool
    ensures { result ≡ batch_accepts batch.now }
{
    match batch.targets() {
        [_, ..] => batch.octets() == SUCCESS.as_slice(),
        [] => false,
    }
}

fn any_accepts(batches: &[Batch]) -> bool
    ensures { result ≡ list_any batch_accepts batches.now }
{
    batches.iter().any(batch_accepts)
}

/// Whether a datagram that is sent says so.
fn accepts(sends: &Sends) -> bool
    ensures { result ≡ accepts sends.now }
{
    any_accepts(sends.batches())
}

/// Whether it is done, if this is sent.
fn is_done(call: &Call, sends: &Sends) -> bool
    ensures { result ≡ is_done call.now sends.now }
{
    match call {
        Call::WhoIs(asker, audience) => is_heard(asker, *audience, sends),
        Call::Registration(asker) => reaches(asker, sends) && accepts(sends),
    }
}

/// What is said if it isn't, and no ask is denied.
fn why_of(call: &Call) -> &'static [u8]
    ensures { result.now ≡ why_of call.now }
{
    match call {
        Call::WhoIs(_, _) => b"not all hear it",
        Call::Registration(_) => b"the port refuses it",
    }
}

/// Who asks.
fn asker_of(call: &Call) -> &Station
    ensures { result.now ≡ asker_of call.now }
{
    match call {
        Call::WhoIs(asker, _) | Call::Registration(asker) => asker,
    }
}

/// The Who-Is of a station to all stations of a network, or of each.
fn who_is_from(asker: &Station, network: u16) -> Npdu<'_>
    requires { 0 < network }
    ensures { npdus.view result ≡ who_is_from asker.now network }
{
    Npdu {
        destination: Some(Destination {
            network,
            mac: &[],
            hops: Destination::WHOLE_HOP_COUNT,
        }),
        source: source_of(asker),
        reply_expected: false,
        priority: Priority::Normal,
        payload: Payload::Apdu(&WHO_IS),
    }
}

/// The datagram of a Who-Is: a broadcast to each network is one on that of who asks (Annex J.2.12).
fn who_is_octets(alloc: Global, asker: &Station, audience: Audience) -> Result<Vec<u8>, AllocError>
    ensures { IfOk result (λ octets. octets.items ≡ who_is_octets asker.now audience) }
{
    match audience {
        Audience::All(_) => {
            let octets = carried(alloc, &who_is_from(asker, ALL_NETWORKS))?;
            framed(alloc, &Bvll::OriginalBroadcast(&octets))
        }
        Audience::Network(network, _) => datagram_of(alloc, &who_is_from(asker, network.get())),
    }
}

/// The datagram of a question.
fn call_octets(alloc: Global, call: &Call) -> Result<Vec<u8>, AllocError>
    ensures { IfOk result (λ octets. octets.items ≡ call_octets call.now) }
{
    match call {
        Call::WhoIs(asker, audience) => who_is_octets(alloc, asker, *audience),
        Call::Registration(_) => framed(
            alloc,
            &Bvll::Register {
                time_to_live: TIME_TO_LIVE,
            },
        ),
    }
}

/// Appends what comes of it.
fn put_end(
    rules: &RuleList,
    call: &Call,
    request: &Reported<AllAsked>,
    text: &mut Vec<u8>,
) -> Result<bool, AllocError>
    ensures text { let due = end_text rules.now call.now request.now.asked request.now.taken.effects.sends in
        OnOk result (text.new.items ≡ text.old.items ++ due) }
    ensures is { IfOk result (λ is_yes. is_yes ≡ is_done call.now request.now.taken.effects.sends) }
{
    if is_done(call, &request.taken.effects.sends) {
        put_slice(text, b"yes\n")?;
        return Ok(true);
    }
    let asked = request.asked.as_slice();
    put_no(text, b"no: ", rules, asked, why_of(call))?;
    Ok(false)
}

/// Puts a question to a gateway, and appends the answer.
fn put_call(
    alloc: Global,
    gateway: &mut Gateway,
    call: &Call,
    text: &mut Vec<u8>,
) -> Result<bool, AllocError>
    ensures text { OnOk result (text.new.items ≡ text.old.items ++ call_text gateway.old call.now) }
    ensures is { IfOk result (λ is_yes. is_yes ≡ may_call gateway.old call.now) }
{
    let asker = asker_of(call);
    let octets = call_octets(alloc, call)?;
    put_way(text, b"the request comes from ", asker.link, asker.port)?;
    let request = take(alloc, gateway, &event_of(asker, &octets), text)?;
    put_end(gateway.rules(), call, &request, text)
}

/// The answer to a question by a gateway of this configuration that has taken nothing yet. An `Err` only if a growth of memory
/// was refused.
pub fn answer_call_by(
    alloc: Global,
    config: Config,
    call: &Call,
) -> Result<QuestionAnswer, AllocError>
    ensures { IfOk result (λ answer. IsCallAnswer config call.now answer.text.items answer.outcome) }
{
    let mut gateway = Gateway::new(alloc, config, Counts::default())?;
    let mut text = Vec::new(alloc);
    let is_yes = put_call(alloc, &mut gateway, call, &mut text)?;
    Ok(QuestionAnswer {
        text,
        outcome: outcome_of(is_yes),
    })
}

/// The port to whose network, or to whose router, what is for a network goes.
fn port_of_network(config: &Config, network: NetNum) -> Option<u8>
    ensures { result ≡ port_of_network config.now network }
{
    if let Some(place) = place_on(config.ports(), network) {
        return Some(place as u8 + 1);
    }
    match route_to(config.routes(), network) {
        Some(route) => Some(route.port),
        None => None,
    }
}

/// The stations of a network to which this port leads.
fn audience_at(asker: &Station, network: NetNum, port: Option<u8>) -> Result<Audience, Unasked>
    ensures { result ≡ audience_at asker.now network port }
{
    match port {
        Some(port) if port == asker.port => Err(Unasked::OnePort),
        Some(port) => Ok(Audience::Network(network, port)),
        None => Err(Unasked::To(PlaceFault::NoWay)),
    }
}

/// The stations of a network, if one is named.
fn audience_of(
    config: &Config,
    asker: &Station,
    network: Option<NetNum>,
) -> Result<Audience, Unasked>
    ensures { result ≡ audience_of config.now asker.now network }
{
    let Some(network) = network else {
        return Err(Unasked::To(PlaceFault::NoNetwork));
    };
    if network.get() == config.device().network.get() {
        return Ok(Audience::Network(network, asker.port));
    }
    audience_at(asker, network, port_of_network(config, network))
}

/// The stations of the network that a text names, or of each.
fn audience_in(config: &Config, asker: &Station, to: Option<&str>) -> Result<Audience, Unasked>
    ensures { IsAudienceIn config.now asker.now (option_map (λ t. t.now) to.entry) result }
{
    match to {
        Some(text) => audience_of(config, asker, network_in(text)),
        None => Ok(Audience::All(config.ports().len() as u8)),
    }
}

/// A Who-Is to those who are meant.
fn who_is_to(asker: Station, audience: Result<Audience, Unasked>) -> Result<Call, Unasked>
    ensures { result ≡ who_is_to asker audience }
{
    match audience {
        Ok(audience) => Ok(Call::WhoIs(asker, audience)),
        Err(unasked) => Err(unasked),
    }
}

/// Whether a network, or each, hears the Who-Is of a station, by the words that name them.
pub fn who_is_of(config: &Config, from: &str, to: Option<&str>) -> Result<Call, Unasked>
    ensures { IsWhoIsOf config.now from.now (option_map (λ t. t.now) to.entry) result }
{
    match station_of(config, from) {
        Ok(asker) => who_is_to(asker, audience_in(config, &asker, to)),
        Err(fault) => Err(Unasked::From(fault)),
    }
}

/// A registration of a station that isn't behind a router.
fn registration_by(asker: Result<Station, PlaceFault>) -> Result<Call, Unasked>
    ensures { result ≡ registration_by asker }
{
    match asker {
        Ok(asker) if asker.is_routed => Err(Unasked::Routed),
        Ok(asker) => Ok(Call::Registration(asker)),
        Err(fault) => Err(Unasked::From(fault)),
    }
}

/// Whether a station may register, by the words that name it; whom is not to be named.
pub fn registration_of(config: &Config, from: &str, to: Option<&str>) -> Result<Call, Unasked>
    ensures { IsRegistrationOf config.now from.now (option_map (λ t. t.now) to.entry) result }
{
    match to {
        Some(_) => Err(Unasked::Registrar),
        None => registration_by(station_of(config, from)),
    }
}
