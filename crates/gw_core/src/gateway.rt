//! The gateway: its state, and what it answers to one event.

ghost use Rattle.std.specs.Prelude.{◌≡◌, ◌+◌, ◌<◌, ◌≤◌, ◌^◌, ◌↔◌, ◌||◌, [], false, true, length, None, is_some};
ghost use Rattle.std.specs.Prelude.{IsOk, IfOk, OnOk, OnErr, IsErrOf};
ghost use Rattle.std.specs.Option.{option_map};
ghost use Rattle.gw_addr.specs.declared.TheConstants.{MAX_PORTS};
ghost use Rattle.gw_device.specs.Response.{HasPlace};
ghost use Rattle.gw_relay.specs.Announcement.{announcement_at, announcements};
ghost use Rattle.gw_relay.specs.State.{Commit, moved};
ghost use Rattle.gw_core.specs.Effects.{changed};
ghost use Rattle.gw_core.specs.Lasting.{lasting_move, lasts};
ghost use Rattle.gw_core.specs.Resumed.{carried, saved_of};
ghost use Rattle.gw_script.specs.Event.{Datagram, Tick};

use crate::asked::{Report, Reporter};
use crate::denial::add_denials;
use crate::drops::DropReason;
use crate::effects::Effects;
use crate::event::Counts;
use crate::fault::StepFault;
use crate::receive::{Arrival, Received, read_npdu, receive};
use crate::reporting::{DenialsAlone, Reporting};
use crate::respond::{network_of, put, respond, take_out};
use crate::saving::saved_ports;
use gw_addr::BipAddr;
use gw_configuration::Config;
use gw_device::{Change, Device};
use gw_frames::bvll::BvllFault;
use gw_frames::npdu::NpduFault;
use gw_relay::{Change as RelayChange, Relay, Sends, Turn};
use gw_rule_index::Policy;
use gw_rules::RuleList;
use gw_state::{Origin, Saved, SavedCounts};
use std::alloc::{AllocError, Global};
use std::marker::Model;
use std::mem;

/// Where each count of a gateway ends.
const LAST_COUNT: u64 = 1 << 63;

/// What an event that was taken does, why it was dropped, if it was, and whether it lasts. One may be kept from event to
/// event: what takes an event into it writes all of it.
#[derive(Drop)]
pub struct Taken {
    /// What it does.
    pub effects: Effects,
    /// Why it was dropped.
    pub drop: Option<DropReason>,
    /// Whether it was granted a table of peers (Annex J.4), or the device makes a write (clause 15.9).
    pub lasts: bool,
    /// What the relay commits.
    change: Option<RelayChange>,
    /// The write that the device commits.
    write: Option<Change>,
}

impl Taken {
    ghost use Rattle.gw_core.specs.internal.Outcome.{IsEmpty};

    /// Of an event that does nothing. It takes no memory.
    pub fn nothing(alloc: Global) -> Self
        ensures sends { result.effects.sends ≡ [] }
        ensures denials { result.effects.denials ≡ [] }
        ensures drop { result.drop ≡ None }
        ensures lasts { result.lasts ≡ false }
    {
        Taken {
            effects: Effects::none(alloc),
            drop: None,
            lasts: false,
            change: None,
            write: None,
        }
    }

    /// What it does, for keeps.
    pub(crate) fn into_effects(self) -> Effects
        ensures { result ≡ self.effects }
    {
        self.effects
    }

    /// Lets go what was there: it is then of an event that does nothing.
    #[inline(always)]
    pub(crate) fn clear(&mut self)
        ensures empty { IsEmpty self.new }
        ensures drop { self.new.drop ≡ None }
    {
        self.effects.clear();
        self.drop = None;
        self.lasts = false;
        put(&mut self.change, None);
        put(&mut self.write, None);
    }

    /// The allocator of what it does.
    pub fn alloc(&self) -> Global {
        self.effects.sends.alloc()
    }
}

/// What an event that was taken does, and what is reported of what it asked.
#[derive(Drop)]
pub struct Reported<T> {
    /// What it does.
    pub taken: Taken,
    /// What is reported of what it asked.
    pub asked: T,
}

/// Whether what was granted lasts: a table of peers, or a write to the device.
fn is_lasting(change: &Option<RelayChange>, write: &Option<Change>) -> bool
    ensures { result ≡ (lasting_move (option_map Commit change.now) || is_some write.now) }
{
    matches!(change, Some(RelayChange::Entries { .. })) || write.is_some()
}

/// A gateway. It takes one event in a call, whole: it answers what the event does, and is then in
/// the next state.
pub struct Gateway {
    ports: u8,
    policy: Policy,
    relay: Relay,
    device: Device,
    counts: Counts,
}

// By hand: a derived one is proved part by part wherever one is dropped (docs/GATE.md).
impl Drop for Gateway {
    fn drop(self) {
        let Gateway {
            ports: _,
            policy: _,
            relay: _,
            device: _,
            counts: _,
        } = self;
    }
}

impl Model for Gateway {
    ghost use Rattle.gw_core.specs.State.{State};
    ghost use Rattle.gw_core.specs.internal.Kept.{IsKept};

    ghost Value = { State };

    ghost view = { λ g. record {
      relay = g.relay;
      device = g.device;
      rules = g.policy;
      ticks = g.counts.ticks;
      denials = g.counts.denials;
    } };

    ghost invariant = { λ g. IsKept g.ports g.relay g.counts };
}

impl Gateway {
    ghost use Rattle.gw_core.specs.Asks.{asks};
    ghost use Rattle.gw_core.specs.Drops.{drop_at};
    ghost use Rattle.gw_core.specs.Effects.{NeedsNoMemory, nothing, passes_end};
    ghost use Rattle.gw_core.specs.History.{IsStateAfter, IsStep};
    ghost use Rattle.gw_core.specs.Receive.{origin, receive};
    ghost use Rattle.gw_core.specs.Arrivals.{event_of};
    ghost use Rattle.gw_core.specs.Asks.{asks_for};
    ghost use Rattle.gw_core.specs.Denials.{denials_for};
    ghost use Rattle.gw_core.specs.Effects.{sends_for};
    ghost use Rattle.gw_core.specs.internal.Outcome.{IsAnswered, IsEmpty, IsOutcome};
    ghost use Rattle.gw_core.specs.internal.View.{admitted_view, origin_of};

    /// A gateway of this configuration that goes on from these counts. The only fault is want of
    /// memory.
    pub fn new(alloc: Global, config: Config, counts: Counts) -> Result<Self, AllocError>
        requires ticks { counts.ticks ≤ 2 ^ 63 }
        requires denials { counts.denials ≤ 2 ^ 63 }
        ensures state { IfOk result (λ gateway. IsStateAfter gateway config counts []) }
    {
        let ports = config.ports().len() as u8;
        let relay = Relay::new(alloc, &config)?;
        let device = Device::new(alloc, &config)?;
        let policy = Policy::new(alloc, config.into_rules())?;
        Ok(Gateway {
            ports,
            policy,
            relay,
            device,
            counts,
        })
    }

    /// A gateway of this configuration that takes over what was saved: of each port that is still there
    /// its foreign devices, and its table of peers if the peers are still configured as they were; the
    /// routes that were learned by such a port; of each object that is still there the values that are in
    /// range, and its default if the default is still configured as it was; and the counts. The only fault
    /// is want of memory.
    pub fn resume(alloc: Global, config: Config, saved: &Saved) -> Result<Self, AllocError>
        ensures { IfOk result (λ gateway. gateway ≡ carried config saved.now) }
    {
        let ports = config.ports();
        let count = ports.len() as u8;
        let counts = saved.counts();
        let tables = saved.carry_tables(alloc, ports)?;
        let learned = saved.carry_routes(alloc, ports)?;
        let relay = Relay::resume(alloc, &config, tables, &learned, counts.since)?;
        let states = saved.carry_states(alloc, config.objects())?;
        let device = Device::resume(alloc, &config, states)?;
        let policy = Policy::new(alloc, config.into_rules())?;
        Ok(Gateway {
            ports: count,
            policy,
            relay,
            device,
            counts: Counts {
                ticks: counts.ticks,
                denials: counts.denials,
            },
        })
    }

    /// What of it outlives it. The origin is that of its configuration ([`Origin::of`]). The only fault is
    /// want of memory.
    pub fn save(&self, alloc: Global, origin: &Origin) -> Result<Saved, AllocError>
        ensures { IfOk result (λ saved. saved ≡ saved_of origin.now self.now) }
    {
        let ports = saved_ports(alloc, origin.ports(), self.relay.ports())?;
        let routes = self.relay.routes().learned(alloc)?;
        let objects = origin.save_objects(alloc, self.device.states())?;
        let counts = SavedCounts {
            since: self.relay.ticks(),
            ticks: self.counts.ticks,
            denials: self.counts.denials,
        };
        Ok(Saved::new(ports, routes, objects, counts).unwrap())
    }

    /// How many ports there are, 1 to 8.
    pub fn ports(&self) -> u8
        ensures count { result ≡ length self.now.relay.ports }
        ensures least { 1 ≤ result }
        ensures most { result ≤ MAX_PORTS }
    {
        self.ports
    }

    /// How many ticks it has counted, and the number of the last denial.
    pub fn counts(&self) -> Counts
        ensures ticks { result.ticks ≡ self.now.ticks }
        ensures denials { result.denials ≡ self.now.denials }
    {
        self.counts
    }

    /// Goes on from other counts, none of which is less than its own: those that a log ends with. The caller
    /// sees to it.
    pub fn count_on(&mut self, counts: Counts)
        requires ticks { self.old.ticks ≤ counts.ticks }
        requires denials { self.old.denials ≤ counts.denials }
        requires last_tick { counts.ticks ≤ 2 ^ 63 }
        requires last_denial { counts.denials ≤ 2 ^ 63 }
        ensures { self.new ≡ record self.old { ticks = counts.ticks; denials = counts.denials } }
    {
        self.counts = counts;
    }

    /// The ports with their tables, and the routes.
    pub fn relay(&self) -> &Relay
        ensures parts { result.now ≡ self.now.relay }
        ensures few { length self.now.relay.ports ≤ MAX_PORTS }
    {
        &self.relay
    }

    /// Whether networks are announced.
    pub fn announces(&self) -> bool
        ensures { result ≡ self.now.relay.announce }
    {
        self.relay.announces()
    }

    /// What is announced on the port of this number, from 1, where networks are announced: an I-Am-Router-To-Network
    /// for those that lie another way than by the port (clause 6.6.2). It asks nothing and changes nothing. The only
    /// fault is want of memory; where nothing is announced none is wanted.
    pub fn announce(&self, alloc: Global, port: u8) -> Result<Sends, AllocError>
        ensures sends { IfOk result (λ sends. sends ≡ announcement_at self.now.relay port) }
        ensures silent { self.now.relay.announce ≡ false → IsOk result }
    {
        self.relay.announce(alloc, port)
    }

    /// What is announced on each port, in order of ports. The only fault is want of memory; where nothing is announced
    /// none is wanted.
    pub fn announcements(&self, alloc: Global) -> Result<Sends, AllocError>
        ensures sends { IfOk result (λ sends. sends ≡ announcements self.now.relay) }
        ensures silent { self.now.relay.announce ≡ false → IsOk result }
    {
        self.relay.announce_all(alloc)
    }

    /// The rules of its policy, in order.
    pub fn rules(&self) -> &RuleList
        ensures { result.now ≡ self.now.rules }
    {
        self.policy.rules()
    }

    /// Its policy.
    pub(crate) fn policy(&self) -> &Policy
        ensures { result.now ≡ self.now.rules }
    {
        &self.policy
    }

    /// How many denials more may be numbered.
    fn left(&self) -> u64
        ensures { result + self.now.denials ≡ 2 ^ 63 }
    {
        LAST_COUNT - self.counts.denials
    }

    /// Writes what is done about a datagram into its place, and answers what the asker reports of its asks, while the
    /// gateway stays as it is. The asker has asked nothing yet. For one that is dropped no turn is made. The faults are
    /// those of [`Gateway::step`]; what is in the place is then of no use.
    #[inline(always)]
    pub(crate) fn outcome<A: Reporter>(
        &self,
        alloc: Global,
        arrival: &Arrival<'_>,
        asker: A,
        taken: &mut Taken,
    ) -> Result<A::Asked, StepFault>
        requires stands { A.StandsFor asker self.now.rules }
        requires begun { A.kept asker ≡ [] }
        ensures outcome { OnOk result (IsOutcome self.now (event_of arrival.now) taken.new) }
        ensures asked { let event = event_of arrival.now in
            let due = A.asked (A.picks asker) (origin (receive self.now event)) self.now.rules (asks self.now event) in
            IfOk result (λ asked. asked ≡ due) }
        ensures count_end { IsErrOf result StepFault.CountEnd
            → passes_end self.now (event_of arrival.now) ≡ true }
        ensures silent { NeedsNoMemory self.now (event_of arrival.now) → IsOk result }
    {
        let mut frame = Err(BvllFault::Length);
        gw_frames::bvll::decode_to(arrival.octets, &mut frame);
        let mut npdu = Err(NpduFault::Short);
        read_npdu(&frame, &mut npdu);
        let network = network_of(&self.device);
        let received = receive(self.relay.ports(), network, arrival, &frame, &npdu);
        taken.clear();
        taken.drop = received.drop_reason();
        if let Received::Dropped(_) = &received {
            let Report { refusals: _, asked } = asker.into_report(alloc, &received)?;
            return Ok(asked);
        }
        self.answer(alloc, &received, asker, taken)
    }

    /// Writes what is done about what is received into a place that is empty, and answers what the asker reports of its
    /// asks, while the gateway stays as it is. The asker has asked nothing yet. The faults are those of
    /// [`Gateway::step`]; what is in the place is then of no use.
    #[inline(always)]
    fn answer<A: Reporter>(
        &self,
        alloc: Global,
        received: &Received<'_>,
        asker: A,
        taken: &mut Taken,
    ) -> Result<A::Asked, StepFault>
        requires stands { A.StandsFor asker self.now.rules }
        requires begun { A.kept asker ≡ [] }
        requires empty { IsEmpty taken.old }
        ensures answered { OnOk result (IsAnswered self.now (admitted_view self.now received.now) taken.new) }
        ensures drop { OnOk result (taken.new.drop ≡ taken.old.drop) }
        ensures asked { let w = self.now in
            let asks = asks_for w.rules w.relay w.device (admitted_view w received.now) in
            IfOk result (λ asked. asked ≡ A.asked (A.picks asker) (origin_of received.now) w.rules asks) }
        ensures count_end { IsErrOf result StepFault.CountEnd →
            2 ^ 63 < self.now.denials + length (denials_for self.now (admitted_view self.now received.now)) }
        ensures silent { let w = self.now in
            asks_for w.rules w.relay w.device (admitted_view w received.now) ≡ [] →
            sends_for w.rules w.relay w.device (admitted_view w received.now) ≡ [] → IsOk result }
    {
        let sends = mem::replace(&mut taken.effects.sends, Sends::new(alloc));
        let mut turn = Turn::over(asker, sends);
        respond(
            &self.relay,
            &self.device,
            received,
            &mut turn,
            &mut taken.write,
        )?;
        let Turn {
            asker,
            sends,
            change,
        } = turn;
        taken.effects.sends = sends;
        let Report { refusals, asked } = asker.into_report(alloc, received)?;
        let refusals = refusals.as_slice();
        if refusals.len() as u64 > self.left() {
            return Err(StepFault::CountEnd);
        }
        let rules = self.policy.rules();
        add_denials(
            &mut taken.effects.denials,
            rules,
            self.counts,
            received,
            refusals,
        )?;
        put(&mut taken.change, change);
        taken.lasts = is_lasting(&taken.change, &taken.write);
        Ok(asked)
    }

    /// Moves on by a datagram: makes its change of the relay and its write to the device, where there
    /// is one, and counts its denials. The only fault is want of memory for the change; then nothing
    /// changed.
    #[inline(always)]
    fn move_on(
        &mut self,
        change: Option<RelayChange>,
        write: Option<Change>,
        denied: u64,
    ) -> Result<(), AllocError>
        requires place { HasPlace self.old.device write }
        requires room { self.old.denials + denied ≤ 2 ^ 63 }
        ensures state { OnOk result (self.new ≡ record self.old {
          relay = moved (option_map Commit change) self.old.relay;
          device = changed write self.old.device;
          denials = self.old.denials + denied;
        }) }
        ensures err { OnErr result (self.new ≡ self.old) }
        ensures no_growth { change ≡ None → IsOk result }
    {
        if let Some(change) = change {
            self.relay.commit(change)?;
        }
        if let Some(write) = write {
            self.device.commit(write);
        }
        self.counts.denials += denied;
        Ok(())
    }

    /// Takes a datagram on the port of this number: answers what it does, and moves on by it. On a
    /// port that isn't there it does nothing.
    ///
    /// # Errors
    ///
    /// 1 `Memory` where a growth was refused, whatever would come after it, and 2 `CountEnd` where the
    /// number of the last denial would pass 2^63. Then nothing changed, and the datagram isn't taken.
    pub fn step(
        &mut self,
        alloc: Global,
        port: u8,
        from: BipAddr,
        octets: &[u8],
    ) -> Result<Effects, StepFault>
        // What it does, and the state then.
        ensures step { IfOk result
            (λ given. IsStep self.old (Datagram port from octets.now) given self.new) }
        // Only an event that passes the end of a count; none that does is taken.
        ensures count_end { IsErrOf result StepFault.CountEnd
            → passes_end self.old (Datagram port from octets.now) ≡ true }
        // Memory only where something is asked or sent.
        ensures silent { NeedsNoMemory self.old (Datagram port from octets.now) → IsOk result }
        ensures err { OnErr result (self.new ≡ self.old) }
    {
        let arrival = Arrival { port, from, octets };
        match self.take(alloc, &arrival, &DenialsAlone) {
            Ok(reported) => Ok(reported.taken.into_effects()),
            Err(fault) => Err(fault),
        }
    }

    /// Does what [`Gateway::step`] does, and says why the datagram was dropped, if it was, whether it lasts, and
    /// what is to be reported of what it asked.
    ///
    /// # Errors
    ///
    /// Those of [`Gateway::step`].
    pub fn take<R: Reporting>(
        &mut self,
        alloc: Global,
        arrival: &Arrival<'_>,
        reporting: &R,
    ) -> Result<Reported<R::Asked>, StepFault>
        ensures step { IfOk result
            (λ reported. IsStep self.old (event_of arrival.now) reported.taken.effects self.new) }
        ensures drop { IfOk result
            (λ reported. reported.taken.drop ≡ drop_at self.old (event_of arrival.now)) }
        ensures lasts { IfOk result
            (λ reported. reported.taken.lasts ≡ lasts self.old (event_of arrival.now)) }
        ensures asked { IfOk result
            (λ reported. reported.asked ≡ R.asked reporting.now self.old (event_of arrival.now)) }
        ensures count_end { IsErrOf result StepFault.CountEnd
            → passes_end self.old (event_of arrival.now) ≡ true }
        // Memory only where something is asked or sent.
        ensures silent { NeedsNoMemory self.old (event_of arrival.now) → IsOk result }
        ensures err { OnErr result (self.new ≡ self.old) }
    {
        let mut taken = Taken::nothing(alloc);
        match self.take_to(alloc, arrival, reporting, &mut taken) {
            Ok(asked) => Ok(Reported { taken, asked }),
            Err(fault) => Err(fault),
        }
    }

    /// Does what [`Gateway::take`] does, writes it into its place, whatever was there, and answers what is to be reported of
    /// what the datagram asked.
    ///
    /// # Errors
    ///
    /// Those of [`Gateway::step`]. What is in the place is then of no use.
    #[inline(never)]
    pub fn take_to<R: Reporting>(
        &mut self,
        alloc: Global,
        arrival: &Arrival<'_>,
        reporting: &R,
        taken: &mut Taken,
    ) -> Result<R::Asked, StepFault>
        ensures step { OnOk result (IsStep self.old (event_of arrival.now) taken.new.effects self.new) }
        ensures drop { OnOk result (taken.new.drop ≡ drop_at self.old (event_of arrival.now)) }
        ensures lasts { OnOk result (taken.new.lasts ≡ lasts self.old (event_of arrival.now)) }
        ensures asked { IfOk result (λ asked. asked ≡ R.asked reporting.now self.old (event_of arrival.now)) }
        ensures count_end { IsErrOf result StepFault.CountEnd → passes_end self.old (event_of arrival.now) ≡ true }
        // Memory only where something is asked or sent.
        ensures silent { NeedsNoMemory self.old (event_of arrival.now) → IsOk result }
        ensures err { OnErr result (self.new ≡ self.old) }
    {
        let now = &*self;
        let asked = reporting.outcome(now, alloc, arrival, taken)?;
        let change = take_out(&mut taken.change);
        let write = take_out(&mut taken.write);
        self.move_on(change, write, taken.effects.denials.len() as u64)?;
        Ok(asked)
    }

    /// Takes a tick. `CountEnd` where the count of ticks would pass 2^63; then nothing changed.
    #[inline(always)]
    pub fn tick(&mut self) -> Result<(), StepFault>
        ensures step { OnOk result (IsStep self.old Tick nothing self.new) }
        ensures count_end { IsErrOf result StepFault.CountEnd ↔ (passes_end self.old Tick ≡ true) }
        ensures refused { OnErr result (IsErrOf result StepFault.CountEnd) }
        ensures err { OnErr result (self.new ≡ self.old) }
    {
        if self.counts.ticks == LAST_COUNT {
            return Err(StepFault::CountEnd);
        }
        self.relay.tick();
        self.counts.ticks += 1;
        Ok(())
    }
}
