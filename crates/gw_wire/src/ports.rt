//! The sockets of all ports, and whose turn it is among them.

ghost use Rattle.std.specs.Prelude.{◌≡◌, ◌∷◌, [], ◌+◌, ◌-◌, ◌≤◌, ◌<◌, ◌^◌, ℕ, length, min, nat_lt, slice_index_or, true, false, IfOk, IfSome, None};
ghost use Rattle.std.specs.Borrow.{sem};
ghost use Rattle.gw_addr.specs.declared.TheConstants.{MAX_PORTS};
ghost use Rattle.gw_wire.specs.declared.sock_pair.SockPair.{SockPair};
ghost use Rattle.gw_wire.specs.Wire.{IsHandedIn, Records, failures_of, receive_answer, receive_call, send_call};
ghost use Rattle.gw_wire.specs.internal.Asking.{AreAsked, AreAskedInTurn, turn_of};
ghost use Rattle.gw_wire.specs.internal.Lending.{LendsPair};
ghost use Rattle.gw_wire.specs.Ports.{AtPlace, HasSentOn, HasTried, Hears, IsNext, asked, got_of, handed_in, last_number, sockets_in_turn};
ghost use Rattle.gw_wire.specs.Socket.{FitsBuffer, some_answer};

use crate::sock_pair::{Said, SockPair};
use crate::socket::{Sock, SockFault};
use crate::wire::{Got, RECEIVE_ROOM, Wire, WireFault};
use gw_addr::{BipAddr, MAX_PORTS};
use std::marker::Model;

/// The sockets of all ports, in their order, and the ticks that are due. They take turns: a tick that
/// is due comes first, then the ports after the one that answered last.
#[derive(Drop)]
pub struct Ports<S> {
    pub(crate) pairs: Vec<SockPair<S>>,
    pub(crate) own_first: [bool; MAX_PORTS],
    pub(crate) ticks: u64,
    pub(crate) last: Option<u8>,
    pub(crate) failures: u128,
}

impl<S> Model for Ports<S> {
    ghost use Rattle.std.specs.Prelude.{◌≤◌, ◌^◌, length};
    ghost use Rattle.gw_addr.specs.declared.TheConstants.{MAX_PORTS};
    ghost use Rattle.gw_wire.specs.Ports.{Ports, last_number};

    ghost Value = { Ports S };

    ghost view = { λ p. record {
      pairs = p.pairs.items;
      own_first = p.own_first;
      ticks = p.ticks;
      last = p.last;
      failures = p.failures;
    } };

    ghost invariant = { λ p. (length p.pairs.items ≤ MAX_PORTS) × (p.ticks ≤ 2 ^ 63) × (last_number p.last ≤ length p.pairs.items) };
}

/// Which socket answered, and what: that of the own address of the port at this place, or the other.
#[derive(Drop)]
pub(crate) struct Heard {
    place: usize,
    own: bool,
    said: Said,
}

/// The most ticks that are due at once.
const MAX_DUE: u64 = 1 << 63;

impl<S: Sock> Ports<S> {
    /// The sockets of so many ports, from 1 to 8, in their order. Each port's own socket is asked
    /// first, from port 1 on, and no tick is due.
    pub fn new(pairs: Vec<SockPair<S>>) -> Self
        requires { length pairs.items ≤ MAX_PORTS }
        ensures pairs { result.pairs ≡ pairs.items }
        ensures first { (place : ℕ) → place < MAX_PORTS →
            slice_index_or result.own_first place false ≡ true }
        ensures ticks { result.ticks ≡ 0 }
        ensures last { result.last ≡ None }
        ensures failures { result.failures ≡ 0 }
    {
        Ports {
            pairs,
            own_first: [true; MAX_PORTS],
            ticks: 0,
            last: None,
            failures: 0,
        }
    }

    /// So many ticks more are due. What would make more than 2^63 due at once is dropped.
    pub fn due(&mut self, ticks: u64)
        ensures { self.new ≡ record self.old { ticks = min (self.old.ticks + ticks) (2 ^ 63) } }
    {
        self.ticks = self.ticks.saturating_add(ticks).min(MAX_DUE);
    }

    /// How many ticks are due.
    pub fn ticks_due(&self) -> u64
        ensures { result ≡ self.now.ticks }
    {
        self.ticks
    }

    /// The number of the port of the last datagram or fault, none at the start.
    pub fn last(&self) -> Option<u8>
        ensures { result ≡ self.now.last }
    {
        self.last
    }

    /// Whether the own socket of the port of this number is asked before the other one.
    pub fn own_first(&self, port: u8) -> bool
        requires least { 1 ≤ port }
        requires most { port ≤ length self.now.pairs }
        ensures { result ≡ slice_index_or self.now.own_first (port - 1) false }
    {
        self.own_first[usize::from(port) - 1]
    }

    /// What comes next: a tick where one is due, else what the first port in turn answers, or
    /// nothing. The ports after the one that answered last come first, and itself at the end. Of
    /// each port the two sockets take turns as well. `Failed` where that port's socket answers a
    /// fault, which is counted.
    #[inline(always)]
    pub fn next(&mut self, buf: &mut [u8; RECEIVE_ROOM]) -> Result<Got, WireFault>
        requires { self.old.failures < 2 ^ 128 - 1 }
        ensures next { IsNext S.look_count S.is_empty S.Answered self.old self.new buf.new result }
        ensures handed_in { IfOk result (IsHandedIn (length self.new.pairs)) }
        ensures failures { self.new.failures ≡ self.old.failures + failures_of result }
        ensures count { length self.new.pairs ≡ length self.old.pairs }
    {
        if self.ticks > 0 {
            self.ticks -= 1;
            return Ok(Got::Tick);
        }
        self.hear(buf)
    }

    /// What the first port in turn answers, or nothing, as [`Ports::next`] where no tick is due. Those that are stay so.
    #[inline(always)]
    pub(crate) fn hear(&mut self, buf: &mut [u8; RECEIVE_ROOM]) -> Result<Got, WireFault>
        requires { self.old.failures < 2 ^ 128 - 1 }
        ensures heard { Hears S.look_count S.is_empty S.Answered self.old self.new buf.new result }
        ensures handed_in { IfOk result (IsHandedIn (length self.new.pairs)) }
        ensures failures { self.new.failures ≡ self.old.failures + failures_of result }
        ensures count { length self.new.pairs ≡ length self.old.pairs }
    {
        match self.ask_all(buf) {
            None => Ok(Got::Idle),
            Some(heard) => self.hand_in(heard),
        }
    }

    /// Lends the sockets of the port at a place, from 0. Nothing else changes.
    pub(crate) fn pair_mut(&mut self, place: usize) -> &mut SockPair<S>
        requires { place < length self.old.pairs }
        ensures* writes_back { sem 𝓛 (LendsPair S.row self.entry place result) }
        ensures value { (d : SockPair S) → result.now ≡ slice_index_or self.old.pairs place d }
    {
        &mut self.pairs[place]
    }

    /// Sends a datagram by the own socket of the port of this number.
    fn send_on(&mut self, port: u8, to: BipAddr, octets: &[u8]) -> Result<(), SockFault>
        ensures count { length self.new.pairs ≡ length self.old.pairs }
        ensures tried { HasTried S.Sent port to octets.now self.old.pairs self.new.pairs result }
        ensures rest { self.new ≡ asked self.new.pairs self.old }
    {
        if port == 0 || usize::from(port) > self.pairs.len() {
            return Err(SockFault::Failed);
        }
        self.pairs[usize::from(port) - 1].send(to, octets)
    }

    /// Asks the ports in turn, until one answers.
    #[inline(always)]
    fn ask_all(&mut self, buf: &mut [u8; RECEIVE_ROOM]) -> Option<Heard>
        ensures turns { AreAskedInTurn S.look_count S.is_empty S.Answered self.old.pairs
            self.new.pairs (sockets_in_turn self.old) result buf.new }
        ensures count { length self.new.pairs ≡ length self.old.pairs }
        ensures rest { self.new ≡ asked self.new.pairs self.old }
        ensures fits { IfSome result (λ heard. FitsBuffer (some_answer heard.said)) }
        ensures within { IfSome result (λ heard. heard.place < length self.new.pairs) }
        ensures few { IfSome result (λ heard. heard.place < MAX_PORTS) }
    {
        let last = self.last_place();
        let count = self.count();
        match self.ask_from(last, count, buf) {
            Some(heard) => Some(heard),
            None => self.ask_from(0, last, buf),
        }
    }

    /// The place after the port that answered last, or the first one.
    fn last_place(&self) -> usize
        ensures place { result ≡ last_number self.now.last }
        ensures within { result ≤ length self.now.pairs }
    {
        match self.last {
            Some(number) => usize::from(number),
            None => 0,
        }
    }

    /// Counts a failed call, and answers its fault.
    pub fn fail(&mut self) -> WireFault
        requires { self.old.failures < 2 ^ 128 - 1 }
        ensures { self.new ≡ record self.old { failures = self.old.failures + 1 } }
    {
        self.failures += 1;
        WireFault::Failed
    }

    /// How many ports there are.
    pub fn count(&self) -> usize
        ensures count { result ≡ length self.now.pairs }
        ensures most { result ≤ MAX_PORTS }
    {
        self.pairs.len()
    }

    /// Hands in what a socket answered.
    fn hand_in(&mut self, heard: Heard) -> Result<Got, WireFault>
        requires place { heard.place < length self.old.pairs }
        requires few { heard.place < MAX_PORTS }
        requires failures { self.old.failures < 2 ^ 128 - 1 }
        ensures given { result ≡ got_of (heard.place + 1) heard.said }
        ensures last { self.new ≡ handed_in (turn_of heard) heard.said self.old }
    {
        let Heard { place, own, said } = heard;
        let port = place as u8 + 1;
        self.last = Some(port);
        self.own_first[place] = !own;
        match said {
            Ok((len, from)) => Ok(Got::Datagram { port, from, len }),
            Err(_) => Err(self.fail()),
        }
    }

    /// Asks the ports at these places in turn, until one answers.
    #[inline(always)]
    fn ask_from(&mut self, from: usize, to: usize, buf: &mut [u8; RECEIVE_ROOM]) -> Option<Heard>
        requires order { from ≤ to }
        requires within { to ≤ length self.old.pairs }
        ensures each { AreAsked S.look_count S.is_empty S.Answered self.old.own_first from to
            self.old.pairs self.new.pairs result buf.new }
        ensures rest { self.new ≡ asked self.new.pairs self.old }
        ensures fits { IfSome result (λ heard. FitsBuffer (some_answer heard.said)) }
    {
        for place in from..to {
            if let Some((own, said)) = self.pairs[place].ask(self.own_first[place], buf) {
                return Some(Heard { place, own, said });
            }
        }
        None
    }
}

impl<S: Sock> Wire for Ports<S> {
    ghost port_count = { λ ports. length ports.pairs };

    ghost failure_count = { λ ports. ports.failures };

    ghost calls = { λ _. None };

    ghost behind = { λ ports. nat_lt 0 ports.ticks };

    fn ports(&self) -> u8 {
        self.count() as u8
    }

    fn is_behind(&self) -> bool {
        self.ticks > 0
    }

    fn failures(&self) -> u128 {
        self.failures
    }

    fn recv(&mut self, buf: &mut [u8; RECEIVE_ROOM]) -> Result<Got, WireFault>
        requires { self.old.failures < 2 ^ 128 - 1 }
        ensures next { IsNext S.look_count S.is_empty S.Answered self.old self.new buf.new result }
        ensures ports { length self.new.pairs ≡ length self.old.pairs }
        ensures handed_in { IfOk result (IsHandedIn (length self.new.pairs)) }
        ensures calls { let call = receive_call (receive_answer result buf.new) in
            Records None None (call ∷ []) }
        ensures failures { self.new.failures ≡ self.old.failures + failures_of result }
    {
        self.next(buf)
    }

    fn send(&mut self, port: u8, to: BipAddr, octets: &[u8]) -> Result<(), WireFault>
        requires { self.old.failures < 2 ^ 128 - 1 }
        ensures sent { HasSentOn S.Sent port to octets.now self.old self.new result }
        ensures ports { length self.new.pairs ≡ length self.old.pairs }
        ensures calls { let call = send_call result
            (record { port = port; to = to; octets = octets.now }) in
            Records None None (call ∷ []) }
        ensures behind { nat_lt 0 self.new.ticks ≡ nat_lt 0 self.old.ticks }
        ensures failures { self.new.failures ≡ self.old.failures + failures_of result }
    {
        match self.send_on(port, to, octets) {
            Ok(()) => Ok(()),
            Err(_) => Err(self.fail()),
        }
    }
}
