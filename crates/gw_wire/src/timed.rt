//! The ports and a clock: each second that passes is a tick, and where nothing waits it is waited for.

ghost use Rattle.std.specs.Prelude.{◌≡◌, ◌+◌, ◌-◌, ◌*◌, ◌<◌, ◌^◌, ◌∷◌, ◌||◌, [], length, min, slice_index_or, true, false, IfOk, OnErr, OnOk, None};
ghost use Rattle.std.specs.Duration.{as_nanos, max_nanos};
ghost use Rattle.gw_wire.specs.Wire.{IsHandedIn, Records, failures_of, receive_answer, receive_call, send_call};
ghost use Rattle.gw_wire.specs.Ports.{HasSentOn};
ghost use Rattle.gw_wire.specs.Timed.{ComesNext, FollowsNext, HasLooked, HasWaited, IsCounted, IsLookedInTime, IsReceived, IsReceivedLater, KeepsCount, defers_due, handing, is_idle, is_tick, rest_between, second, seconds_between, since_more, with_due, with_ports};
ghost use Rattle.gw_wire.specs.Watch.{HasSent};

use crate::ports::Ports;
use crate::socket::Sock;
use crate::timepiece::Timepiece;
use crate::waiter::Waiter;
use crate::waking::{hold_all, is_any_awake, is_tick_held, wake_all};
use crate::watch::Watch;
use crate::wire::{Got, RECEIVE_ROOM, Wire, WireFault};
use gw_addr::BipAddr;
use std::io;
use std::time::Duration;

/// How many receives may go by without a look at what came, while something may wait at a socket
/// already.
pub(crate) const MOST_UNLOOKED: u8 = 7;

/// After how many seconds what is due at a tick isn't deferred to the next one, though that is due already.
pub(crate) const LONGEST_DEFERRED: u64 = 10;

/// The ports as a wire in time. Before each receive the whole seconds are counted that passed since
/// the last look at the clock, and so many ticks are due. Where nothing waits it waits for a
/// datagram, up to the next second, and then asks once more. Only sockets are asked at which
/// something may wait, by what the waiter says. While something may wait already, seven receives go
/// by before the next asks the waiter, so that what came elsewhere has its turn. After a tick is handed in it asks the waiter too,
/// and hands in the next one only once each socket was asked at which something may have waited then. It is behind after a tick
/// while another one is due, unless ten seconds were counted since a tick after which it wasn't: so what is due at a tick is done also if
/// it never catches up.
#[derive(Drop)]
pub struct TimedPorts<S, C, P> {
    /// The sockets of all ports, and the ticks that are due.
    pub ports: Ports<Watch<S>>,
    /// What gives the time.
    pub clock: C,
    /// What waits where nothing has come.
    pub waiter: P,
    /// The moment of the clock up to which each whole second was counted.
    pub counted: Duration,
    /// How many receives went by since the waiter last reported where something came.
    pub unlooked: u8,
    /// Whether a tick was handed in since the waiter last reported so.
    pub ticked: bool,
    /// Whether the last tick defers what is due to the next one.
    pub defers: bool,
    /// How many seconds were counted since a tick that didn't. It stays at 2^64 - 1.
    pub since: u64,
}

/// Whether a tick came.
fn is_tick(came: &Result<Got, WireFault>) -> bool
    ensures { result ≡ is_tick came.now }
{
    matches!(came, Ok(Got::Tick))
}

/// Whether nothing came.
fn is_idle(came: &Result<Got, WireFault>) -> bool
    ensures { result ≡ is_idle came.now }
{
    matches!(came, Ok(Got::Idle))
}

/// What comes next of ports: a tick that is due, unless a socket holds it; else what a socket answers, or the tick, if nothing waits at
/// any.
#[inline(always)]
fn next_of<S: Sock>(
    ports: &mut Ports<Watch<S>>,
    buf: &mut [u8; RECEIVE_ROOM],
) -> Result<Got, WireFault>
    requires { ports.old.failures < 2 ^ 128 - 1 }
    ensures next { ComesNext S.look_count S.is_empty S.Answered ports.old ports.new buf.new result }
    ensures handed_in { IfOk result (IsHandedIn (length ports.new.pairs)) }
    ensures failures { ports.new.failures ≡ ports.old.failures + failures_of result }
    ensures count { length ports.new.pairs ≡ length ports.old.pairs }
{
    if is_tick_held(&*ports) {
        let heard = ports.hear(buf);
        if is_idle(&heard) {
            return ports.next(buf);
        }
        return heard;
    }
    ports.next(buf)
}

impl<S: Sock, C: Timepiece, P: Waiter> TimedPorts<S, C, P> {
    /// The ports, from now on: no second that passed before is a tick. An `Err` where the clock can't
    /// be read.
    pub fn start(ports: Ports<Watch<S>>, mut clock: C, waiter: P) -> io::Result<Self>
    where
        S: Drop,
        C: Drop,
        P: Drop,
        ensures ports { IfOk result (λ timed. timed.ports ≡ ports) }
        ensures waiter { IfOk result (λ timed. timed.waiter ≡ waiter) }
        ensures now { IfOk result (λ timed. C.Shows timed.clock (as_nanos timed.counted)) }
        ensures unlooked { IfOk result (λ timed. timed.unlooked ≡ 0) }
        ensures ticked { IfOk result (λ timed. timed.ticked ≡ false) }
        ensures defers { IfOk result (λ timed. timed.defers ≡ false) }
        ensures since { IfOk result (λ timed. timed.since ≡ 0) }
    {
        let counted = clock.elapsed()?;
        Ok(TimedPorts {
            ports,
            clock,
            waiter,
            counted,
            unlooked: 0,
            ticked: false,
            defers: false,
            since: 0,
        })
    }

    /// Counts the whole seconds that passed until this moment of the clock, each as a tick that is
    /// due, and answers how long it is to the next one.
    fn advance(&mut self, now: Duration) -> Duration
        ensures ticks { let seconds = seconds_between (as_nanos self.old.counted) (as_nanos now) in
            self.new.ports ≡ with_due seconds self.old.ports }
        ensures counted { let seconds = seconds_between (as_nanos self.old.counted)
            (as_nanos now) in
            as_nanos self.new.counted
            ≡ min (as_nanos self.old.counted + seconds * second) max_nanos }
        ensures left { as_nanos result
            ≡ second - rest_between (as_nanos self.old.counted) (as_nanos now) }
        ensures clock { self.new.clock ≡ self.old.clock }
        ensures waiter { self.new.waiter ≡ self.old.waiter }
        ensures unlooked { self.new.unlooked ≡ self.old.unlooked }
        ensures ticked { self.new.ticked ≡ self.old.ticked }
        ensures defers { self.new.defers ≡ self.old.defers }
        ensures since { self.new.since ≡ since_more (seconds_between (as_nanos self.old.counted) (as_nanos now)) self.old.since }
    {
        let passed = now.saturating_sub(self.counted);
        let seconds = passed.as_secs();
        self.ports.due(seconds);
        self.since = self.since.saturating_add(seconds);
        self.counted = self.counted.saturating_add(Duration::from_secs(seconds));
        let rest = Duration::from_nanos(u64::from(passed.subsec_nanos()));
        Duration::from_secs(1).saturating_sub(rest)
    }

    /// Counts the whole seconds that passed, and answers how long it is to the next one.
    fn count_seconds(&mut self) -> io::Result<Duration>
        ensures counts { IfOk result (λ left. IsCounted C.Shows self.old self.new (as_nanos left)) }
        ensures waiter { self.new.waiter ≡ self.old.waiter }
        ensures unlooked { self.new.unlooked ≡ self.old.unlooked }
        ensures ticked { self.new.ticked ≡ self.old.ticked }
        ensures pairs { self.new.ports.pairs ≡ self.old.ports.pairs }
        ensures count { length self.new.ports.pairs ≡ length self.old.ports.pairs }
        ensures failures { self.new.ports.failures ≡ self.old.ports.failures }
    {
        let now = self.clock.elapsed()?;
        Ok(self.advance(now))
    }

    /// Waits for a datagram, so long at most, and notes at which sockets one may have come.
    fn wait(&mut self, most: Duration) -> io::Result<()>
        ensures waits { OnOk result
            (HasWaited P.Waited P.Quiet self.old self.new (as_nanos most)) }
        ensures unlooked { OnErr result (self.new.unlooked ≡ self.old.unlooked) }
        ensures pairs { OnErr result (self.new.ports.pairs ≡ self.old.ports.pairs) }
        ensures count { length self.new.ports.pairs ≡ length self.old.ports.pairs }
        ensures failures { self.new.ports.failures ≡ self.old.ports.failures }
    {
        self.waiter.wait(most)?;
        wake_all(&mut self.ports, &self.waiter);
        self.unlooked = 0;
        Ok(())
    }

    /// Notes at which sockets a datagram may have come, and has these hold the next tick. It doesn't wait.
    fn begin_round(&mut self) -> io::Result<()>
        requires { self.old.ticked ≡ true }
        ensures looks { OnOk result (HasLooked P.Waited P.Quiet self.old self.new) }
        ensures unlooked { OnErr result (self.new.unlooked ≡ self.old.unlooked) }
        ensures pairs { OnErr result (self.new.ports.pairs ≡ self.old.ports.pairs) }
        ensures count { length self.new.ports.pairs ≡ length self.old.ports.pairs }
        ensures failures { self.new.ports.failures ≡ self.old.ports.failures }
    {
        self.wait(Duration::ZERO)?;
        hold_all(&mut self.ports);
        self.ticked = false;
        Ok(())
    }

    /// Notes at which sockets a datagram may have come, after a tick, or where something may wait already, so that it
    /// keeps none from its turn; or lets a receive go by, seven of them between two looks. It doesn't
    /// wait.
    fn look(&mut self) -> io::Result<()>
        ensures looks { OnOk result (HasLooked P.Waited P.Quiet self.old self.new) }
        ensures unlooked { OnErr result (self.new.unlooked ≡ self.old.unlooked) }
        ensures pairs { OnErr result (self.new.ports.pairs ≡ self.old.ports.pairs) }
        ensures count { length self.new.ports.pairs ≡ length self.old.ports.pairs }
        ensures failures { self.new.ports.failures ≡ self.old.ports.failures }
    {
        if self.ticked {
            return self.begin_round();
        }
        if !is_any_awake(&self.ports) {
            return Ok(());
        }
        if self.unlooked < MOST_UNLOOKED {
            self.unlooked += 1;
            return Ok(());
        }
        self.wait(Duration::ZERO)
    }

    /// What comes next; and notes whether it is a tick.
    #[inline(always)]
    fn next(&mut self, buf: &mut [u8; RECEIVE_ROOM]) -> Result<Got, WireFault>
        requires { self.old.ports.failures < 2 ^ 128 - 1 }
        ensures next { ComesNext S.look_count S.is_empty S.Answered self.old.ports self.new.ports buf.new result }
        ensures stays { self.new ≡ handing result self.new.ports self.old }
        ensures handed_in { IfOk result (IsHandedIn (length self.new.ports.pairs)) }
        ensures failures { self.new.ports.failures ≡ self.old.ports.failures + failures_of result }
        ensures count { length self.new.ports.pairs ≡ length self.old.ports.pairs }
    {
        let came = next_of(&mut self.ports, buf);
        if is_tick(&came) {
            self.ticked = true;
            self.defers = self.ports.is_behind() && self.since < LONGEST_DEFERRED;
            self.since = if self.defers { self.since } else { 0 };
        }
        came
    }

    /// Waits for a datagram, so long at most, and receives what has come then.
    fn recv_later(&mut self, most: Duration, buf: &mut [u8; RECEIVE_ROOM]) -> Result<Got, WireFault>
        requires { self.old.ports.failures < 2 ^ 128 - 1 }
        ensures later { IfOk result (IsReceivedLater C.Shows P.Waited P.Quiet
            (FollowsNext S.look_count S.is_empty S.Answered) self.old self.new
            (as_nanos most) buf.new) }
        ensures unlooked { KeepsCount P.Waited self.old self.new }
        ensures count { length self.new.ports.pairs ≡ length self.old.ports.pairs }
        ensures handed_in { IfOk result (IsHandedIn (length self.new.ports.pairs)) }
        ensures failures { self.new.ports.failures
            ≡ self.old.ports.failures + failures_of result }
    {
        let Ok(()) = self.wait(most) else {
            return Err(self.ports.fail());
        };
        let Ok(_left) = self.count_seconds() else {
            return Err(self.ports.fail());
        };
        let given = self.next(buf)?;
        Ok(given)
    }

    /// What came, or where nothing did, what comes later: it is waited so long at most.
    fn recv_behind(
        &mut self,
        came: Result<Got, WireFault>,
        most: Duration,
        buf: &mut [u8; RECEIVE_ROOM],
    ) -> Result<Got, WireFault>
        requires failures { is_idle came ≡ true → self.old.ports.failures < 2 ^ 128 - 1 }
        requires handed_in { IfOk came (IsHandedIn (length self.old.ports.pairs)) }
        ensures came { is_idle came ≡ false → result ≡ came }
        ensures stays { is_idle came ≡ false → self.new ≡ self.old }
        ensures buffer { is_idle came ≡ false → buf.new ≡ buf.old }
        ensures later { is_idle came ≡ true →
            IfOk result (IsReceivedLater C.Shows P.Waited P.Quiet
            (FollowsNext S.look_count S.is_empty S.Answered) self.old self.new
            (as_nanos most) buf.new) }
        ensures unlooked { KeepsCount P.Waited self.old self.new }
        ensures count { length self.new.ports.pairs ≡ length self.old.ports.pairs }
        ensures handed_in { IfOk result (IsHandedIn (length self.new.ports.pairs)) }
        ensures failures { self.new.ports.failures + failures_of came
            ≡ self.old.ports.failures + failures_of result }
    {
        match came {
            Ok(Got::Idle) => self.recv_later(most, buf),
            Ok(Got::Datagram { .. }) | Ok(Got::Tick) | Err(_) => came,
        }
    }
}

impl<S: Sock, C: Timepiece, P: Waiter> Wire for TimedPorts<S, C, P> {
    ghost port_count = { λ timed. length timed.ports.pairs };

    ghost failure_count = { λ timed. timed.ports.failures };

    ghost calls = { λ _. None };

    ghost behind = { defers_due };

    fn ports(&self) -> u8 {
        self.ports.ports()
    }

    fn is_behind(&self) -> bool {
        self.ports.is_behind() && self.defers
    }

    fn failures(&self) -> u128 {
        self.ports.failures()
    }

    fn recv(&mut self, buf: &mut [u8; RECEIVE_ROOM]) -> Result<Got, WireFault>
        requires { self.old.ports.failures < 2 ^ 128 - 1 }
        ensures received { IfOk result (IsReceived C.Shows P.Waited P.Quiet
            (FollowsNext S.look_count S.is_empty S.Answered) self.old self.new buf.new) }
        ensures looked { IsLookedInTime P.Waited self.old self.new }
        ensures ports { length self.new.ports.pairs ≡ length self.old.ports.pairs }
        ensures handed_in { IfOk result (IsHandedIn (length self.new.ports.pairs)) }
        ensures calls { let call = receive_call (receive_answer result buf.new) in
            Records None None (call ∷ []) }
        ensures failures { self.new.ports.failures
            ≡ self.old.ports.failures + failures_of result }
    {
        let Ok(most) = self.count_seconds() else {
            return Err(self.ports.fail());
        };
        let Ok(()) = self.look() else {
            return Err(self.ports.fail());
        };
        let came = self.next(buf);
        self.recv_behind(came, most, buf)
    }

    fn send(&mut self, port: u8, to: BipAddr, octets: &[u8]) -> Result<(), WireFault>
        requires { self.old.ports.failures < 2 ^ 128 - 1 }
        ensures sent { HasSentOn (HasSent S.Sent) port to octets.now
            self.old.ports self.new.ports result }
        ensures stays { self.new ≡ with_ports self.new.ports self.old }
        ensures ports { length self.new.ports.pairs ≡ length self.old.ports.pairs }
        ensures calls { let call = send_call result
            (record { port = port; to = to; octets = octets.now }) in
            Records None None (call ∷ []) }
        ensures behind { defers_due self.new ≡ defers_due self.old }
        ensures failures { self.new.ports.failures
            ≡ self.old.ports.failures + failures_of result }
    {
        self.ports.send(port, to, octets)
    }
}
