//! The gateway on a wire: what comes is taken, what is denied is logged, and what is to go is
//! sent.

ghost use Rattle.std.specs.Prelude.{◌≡◌, ℕ, ◌+◌, ◌-◌, ◌<◌, ◌≤◌, ◌^◌, ◌∷◌, ◌++◌, [], length, IfOk, IfErr, IsErrOf, OnOk, true};
ghost use Rattle.gw_script.specs.Event.{event_view};
ghost use Rattle.gw_turns.specs.Tally.{IsBelow, no_tally};
ghost use Rattle.gw_turns.specs.ServeTurn.{AreTried, GuardedEnd, HasRoom, LogEnd, TurnEnd, counted_send, event_answer};
ghost use Rattle.gw_turns.specs.Serve.{AreRefused, ServesAll, Stops, counts_of_answer, lines_of, scene, ticks_with, zero_counts};
ghost use Rattle.gw_turns.specs.Served.{IsServing};
ghost use Rattle.gw_turns.specs.Stretch.{CanCount, moment, wire_counts};
ghost use Rattle.gw_wire.specs.Wire.{Records, failures_of, receive_call};
ghost use Rattle.gw_relay.specs.Sends.{sendings_of};

use crate::pace::one_more;
use crate::ports::{PortSends, count_sent};
use crate::seen::{Refusals, take_seen};
use crate::tally::{DropTally, number_if};
use crate::unwritten::write_out;
use gw_addr::MAX_PORTS;
use gw_audit::{Denials, line};
use gw_core::{Gateway, Guard, StepFault, Unguarded};
use gw_relay::{Batch, Sends};
use gw_script::{Event, OctetSink};
use gw_wire::{Got, RECEIVE_ROOM, Wire, WireFault};
use std::alloc::{AllocError, Global};
use thiserror::Error;

/// What was done in some turns.
#[derive(Clone, Copy)]
pub struct Served {
    /// How many turns there were: receives, also those that failed or found nothing.
    pub turns: u64,
    /// How many events the gateway took.
    pub taken: u64,
    /// How many events weren't taken, since a growth was refused.
    pub memory_drops: u64,
    /// How many receives failed.
    pub recv_failures: u64,
    /// How many sends succeeded.
    pub sends: u128,
    /// How many sends failed.
    pub send_failures: u128,
    /// How many of the events were ticks. It stays at 2^64 - 1.
    pub ticks: u64,
    /// What came of the sends on each port, in order of their numbers.
    pub ports: [PortSends; MAX_PORTS],
}

/// Why serving ends before its turns do.
#[derive(Clone, Copy, Debug, Error)]
pub enum ServeFault {
    /// 1: a write to the log failed, or took nothing.
    #[error("log failed")]
    Log,
    /// 2: a growth was refused for the lines of an event that was taken.
    #[error("out of memory")]
    Memory,
    /// 3: the count of ticks or the number of the last denial would pass 2^63.
    #[error("count at its end")]
    CountEnd,
}

/// Where serving ended before its turns did.
#[derive(Clone, Copy)]
pub struct ServeStop {
    /// Why.
    pub fault: ServeFault,
    /// What was done until then.
    pub served: Served,
}

/// How many ticks were taken, after an event more.
fn ticks_with(ticks: u64, event: &Event<'_>) -> u64
    ensures { result ≡ ticks_with ticks (event_view event.now) }
{
    match *event {
        Event::Datagram { .. } => ticks,
        Event::Tick => one_more(ticks),
    }
}

impl Served {
    /// Nothing was done.
    pub fn none() -> Self
        ensures { result ≡ zero_counts }
    {
        Served {
            turns: 0,
            taken: 0,
            memory_drops: 0,
            recv_failures: 0,
            sends: 0,
            send_failures: 0,
            ticks: 0,
            ports: [PortSends::none(); MAX_PORTS],
        }
    }

    /// Counts a send that was tried on the port of this number, by whether it succeeded.
    fn count_send(&mut self, port: u8, success: bool)
        requires { wire_counts self.old < 2 ^ 128 - 1 }
        ensures { self.new ≡ counted_send self.old port success }
    {
        self.sends += u128::from(number_if(success));
        self.send_failures += u128::from(number_if(!success));
        count_sent(&mut self.ports, port, self.ticks, success);
    }
}

/// Serves a wire for so many turns. A turn is one receive. Of an event that comes, the lines of all
/// denials are made and written to the log, and then its datagrams are sent, in order. A receive or
/// a send that fails is counted, and serving goes on; an event for which there is no memory is
/// counted, and sends and logs nothing.
///
/// # Errors
///
/// 1 `Log` where the log fails: it then has a front of the event's lines. 2 `Memory` where a growth
/// is refused for them: it then has none. In both cases the gateway took the event, and nothing of it
/// was sent. 3 `CountEnd` where the event would pass the end of a count: it isn't taken.
pub fn serve<W: Wire, L: OctetSink>(
    alloc: Global,
    gateway: &mut Gateway,
    wire: &mut W,
    log: &mut L,
    turns: u64,
) -> Result<Served, ServeStop>
    requires turns { turns < 2 ^ 63 }
    requires failures { W.failure_count wire.old < 2 ^ 127 }
    // The scene then: the gateway, the log and the wire, as some list of turns leads to.
    ensures all { let before = scene gateway.old (L.held log.old) (W.calls wire.old) in
        let after = scene gateway.new (L.held log.new) (W.calls wire.new) in
        IfOk result (λ served. ServesAll turns before served after) }
    ensures stop { let before = scene gateway.old (L.held log.old) (W.calls wire.old) in
        let after = scene gateway.new (L.held log.new) (W.calls wire.new) in
        IfErr result (λ stop. Stops turns before stop after) }
    // The same by the calls of the wire: what it handed in, what was taken of that, and what was tried to be sent.
    ensures calls { let before = scene gateway.old (L.held log.old) (W.calls wire.old) in
        let after = scene gateway.new (L.held log.new) (W.calls wire.new) in
        IsServing turns before result after }
    // The wire's own count of failures rose by those that are counted.
    ensures failures { let served = counts_of_answer result in
        W.failure_count wire.new
        ≡ W.failure_count wire.old + served.recv_failures + served.send_failures }
    ensures ports { W.port_count wire.new ≡ W.port_count wire.old }
    // A log that never fails doesn't end it.
    ensures sure_log { L.NeverFails log.old → IfErr result (λ stop. ¬ (stop.fault ≡ ServeFault.Log)) }
{
    let mut state = ServeState::new(alloc, turns);
    for _ in 0..turns {
        match state.take_turn(gateway, wire, log) {
            Ok(()) => {}
            Err(fault) => {
                return Err(ServeStop {
                    fault,
                    served: state.served,
                });
            }
        }
    }
    Ok(state.served)
}

/// What is kept from turn to turn.
#[derive(Drop)]
pub struct ServeState {
    /// Where memory comes from.
    pub alloc: Global,
    /// How many turns are left to be served.
    pub left: u64,
    datagram: [u8; RECEIVE_ROOM],
    /// What the log lacks of the lines of the last event, if it failed at them.
    pub unwritten: Vec<u8>,
    /// What was done so far.
    pub served: Served,
    /// How many datagrams weren't passed on, in whole turns.
    pub tally: DropTally,
    /// How often the gateway refused an event for want of memory.
    pub refusals: Refusals,
}

impl ServeState {
    /// Before the first of so many turns.
    pub fn new(alloc: Global, turns: u64) -> Self
        ensures left { result.left ≡ turns }
        ensures served { result.served ≡ zero_counts }
        ensures tally { result.tally ≡ no_tally }
        ensures ready { (failures : ℕ) → failures < 2 ^ 127 → turns < 2 ^ 63 →
            CanCount result.served result.tally failures result.left }
    {
        ServeState {
            alloc,
            left: turns,
            datagram: [0; RECEIVE_ROOM],
            unwritten: Vec::new(alloc),
            served: Served::none(),
            tally: DropTally::none(),
            refusals: Refusals::none(alloc),
        }
    }

    /// One turn: receives, has the gateway take what came, logs its denials and then sends.
    pub(crate) fn take_turn<W: Wire, L: OctetSink>(
        &mut self,
        gateway: &mut Gateway,
        wire: &mut W,
        log: &mut L,
    ) -> Result<(), ServeFault>
        requires some { 0 < self.old.left }
        requires room { HasRoom self.old.served (W.failure_count wire.old) }
        requires below { IsBelow self.old.served.taken self.old.tally }
        ensures end { let before = scene gateway.old (L.held log.old) (W.calls wire.old) in
            let after = scene gateway.new (L.held log.new) (W.calls wire.new) in
            TurnEnd before self.old.served self.old.tally after self.new.served self.new.tally result }
        ensures left { self.new.left + 1 ≡ self.old.left }
        ensures below { IsBelow self.new.served.taken self.new.tally }
        ensures failures { let was = self.old.served in
            let is = self.new.served in
            W.failure_count wire.new + was.recv_failures + was.send_failures
            ≡ W.failure_count wire.old + is.recv_failures + is.send_failures }
        ensures few { wire_counts self.new.served < wire_counts self.old.served + 2 ^ 64 }
        ensures refused { AreRefused self.old.served self.old.refusals self.new.served self.new.refusals }
        ensures ports { W.port_count wire.new ≡ W.port_count wire.old }
        ensures sure_log { L.NeverFails log.old → ¬ (IsErrOf result ServeFault.Log) }
        ensures lasting_log { L.NeverFails log.old → L.NeverFails log.new }
    {
        match self.take_guarded_turn(gateway, wire, log, &mut Unguarded) {
            Ok(_) => Ok(()),
            Err(fault) => Err(fault),
        }
    }

    /// One turn with a guard, which passes what was taken and logged before it is sent. Says whether its
    /// datagrams could go. If the log fails at an event, the guard passes it all the same, since it was taken, and nothing of it is
    /// sent.
    #[inline(always)]
    pub(crate) fn take_guarded_turn<W: Wire, L: OctetSink, G: Guard>(
        &mut self,
        gateway: &mut Gateway,
        wire: &mut W,
        log: &mut L,
        guard: &mut G,
    ) -> Result<bool, ServeFault>
        requires some { 0 < self.old.left }
        requires room { HasRoom self.old.served (W.failure_count wire.old) }
        requires below { IsBelow self.old.served.taken self.old.tally }
        ensures end { let before = moment
            (scene gateway.old (L.held log.old) (W.calls wire.old)) guard.old self.old.served self.old.tally in
            let after = moment
            (scene gateway.new (L.held log.new) (W.calls wire.new)) guard.new self.new.served self.new.tally in
            GuardedEnd G.Passes before result self.new.unwritten.items after }
        ensures turns { self.new.served.turns ≡ self.old.served.turns + 1 }
        ensures left { self.new.left + 1 ≡ self.old.left }
        ensures each { let is = self.new.served in
            is.taken + is.memory_drops + is.recv_failures ≤ is.turns }
        ensures below { IsBelow self.new.served.taken self.new.tally }
        ensures failures { let was = self.old.served in
            let is = self.new.served in
            W.failure_count wire.new + was.recv_failures + was.send_failures
            ≡ W.failure_count wire.old + is.recv_failures + is.send_failures }
        ensures few { wire_counts self.new.served < wire_counts self.old.served + 2 ^ 64 }
        ensures refused { AreRefused self.old.served self.old.refusals self.new.served self.new.refusals }
        ensures ports { W.port_count wire.new ≡ W.port_count wire.old }
        ensures sure_log { L.NeverFails log.old → ¬ (IsErrOf result ServeFault.Log) }
        ensures lasting_log { L.NeverFails log.old → L.NeverFails log.new }
    {
        let alloc = self.alloc;
        self.left -= 1;
        self.served.turns += 1;
        let event = match receive(wire, &mut self.datagram) {
            Ok(Some(event)) => event,
            Ok(None) => return Ok(true),
            Err(_) => {
                self.served.recv_failures += 1;
                return Ok(true);
            }
        };
        let tick = gateway.counts().ticks;
        let mut asked = None;
        let taken = match take_seen(gateway, &event, guard, &mut asked, &mut self.refusals) {
            Ok(taken) => taken,
            Err(StepFault::Memory) => {
                self.served.memory_drops += 1;
                return Ok(true);
            }
            Err(StepFault::CountEnd) => return Err(ServeFault::CountEnd),
        };
        self.served.taken += 1;
        let Ok(is_logged) = log_denials(&mut self.unwritten, log, &taken.effects.denials) else {
            return Err(ServeFault::Memory);
        };
        if !is_logged {
            guard.pass(alloc, gateway, &taken, asked.as_ref());
            return Err(ServeFault::Log);
        }
        self.tally
            .count(tick, &event, taken.drop, &taken.effects.denials);
        if !guard.pass(alloc, gateway, &taken, asked.as_ref()) {
            return Ok(false);
        }
        self.served.ticks = ticks_with(self.served.ticks, &event);
        try_sends(wire, &taken.effects.sends, &mut self.served);
        Ok(true)
    }
}

/// Receives what comes next, and gives the event that it is, lent from the buffer.
#[inline(always)]
fn receive<'a, W: Wire>(
    wire: &mut W,
    datagram: &'a mut [u8; RECEIVE_ROOM],
) -> Result<Option<Event<'a>>, WireFault>
    requires { W.failure_count wire.old < 2 ^ 128 - 1 }
    ensures ports { W.port_count wire.new ≡ W.port_count wire.old }
    ensures calls { let call = receive_call (event_answer result) in
        Records (W.calls wire.old) (W.calls wire.new) (call ∷ []) }
    ensures failures { W.failure_count wire.new ≡ W.failure_count wire.old + failures_of result }
{
    match wire.recv(datagram)? {
        Got::Datagram { port, from, len } => Ok(Some(Event::Datagram {
            port,
            from,
            octets: &datagram[..len],
        })),
        Got::Tick => Ok(Some(Event::Tick)),
        Got::Idle => Ok(None),
    }
}

/// Makes the lines of all denials, and then writes them to the log. Says whether it has them; else what it lacks is left. Without a
/// denial the log isn't called. An `Err` if there is no memory for the lines.
fn log_denials<L: OctetSink>(
    unwritten: &mut Vec<u8>,
    log: &mut L,
    denials: &Denials,
) -> Result<bool, AllocError>
    ensures end { LogEnd denials.now (L.held log.old) (L.held log.new) result unwritten.new.items }
    ensures sure { L.NeverFails log.old → IfOk result (λ is_logged. is_logged ≡ true) }
    ensures lasting { L.NeverFails log.old → L.NeverFails log.new }
{
    if denials.is_empty() {
        return Ok(true);
    }
    unwritten.clear();
    let Ok(_made) = append_lines(unwritten, denials) else {
        return Err(AllocError);
    };
    Ok(write_out(unwritten, log))
}

/// Appends the line of each denial.
fn append_lines(out: &mut Vec<u8>, denials: &Denials) -> Result<(), AllocError>
    ensures { OnOk result (out.new.items ≡ out.old.items ++ lines_of denials.now) }
{
    for denial in denials.as_slice() {
        line(denial, out)?;
    }
    Ok(())
}

/// Tries to send each datagram once, in order, and counts what came of it.
pub(crate) fn try_sends<W: Wire>(wire: &mut W, sends: &Sends, served: &mut Served)
    requires counts { wire_counts served.old + 2 ^ 64 ≤ 2 ^ 128 }
    requires failures { W.failure_count wire.old + 2 ^ 64 ≤ 2 ^ 128 }
    ensures tried { let failures = W.failure_count wire.old in
        AreTried sends.now (W.calls wire.old) (W.calls wire.new) served.old served.new
        failures (W.failure_count wire.new) }
    ensures few { length sends.now < 2 ^ 64 }
    ensures ports { W.port_count wire.new ≡ W.port_count wire.old }
    ensures behind { W.behind wire.new ≡ W.behind wire.old }
{
    for batch in sends.batches() {
        try_batch(wire, batch, served);
    }
}

/// Tries to send a message to each of its addresses once, in order, and counts what came of it.
fn try_batch<W: Wire>(wire: &mut W, batch: &Batch, served: &mut Served)
    requires counts { wire_counts served.old + length (sendings_of batch.now) < 2 ^ 128 }
    requires failures { W.failure_count wire.old + length (sendings_of batch.now) < 2 ^ 128 }
    ensures tried { let failures = W.failure_count wire.old in
        AreTried (sendings_of batch.now) (W.calls wire.old) (W.calls wire.new) served.old served.new
        failures (W.failure_count wire.new) }
    ensures ports { W.port_count wire.new ≡ W.port_count wire.old }
    ensures behind { W.behind wire.new ≡ W.behind wire.old }
{
    for target in batch.targets() {
        let sent = wire.send(batch.port(), *target, batch.octets());
        served.count_send(batch.port(), sent.is_ok());
    }
}
