//! The relay: its state, and what changes it.

ghost use Rattle.std.specs.Prelude.{◌≡◌, ◌<◌, ◌^◌, ℕ, [], false, List, length, map, IfOk, IsOk, OnOk, OnErr};
ghost use Rattle.std.specs.List.{AllByRecursion};
ghost use Rattle.gw_relay.specs.Initial.{direct_of, initial, resumed, routed_of};
ghost use Rattle.gw_tables.specs.routes.History.{IsStateAfter};
ghost use Rattle.gw_tables.specs.routes.History.{History as Learned};
ghost use Rattle.gw_tables.specs.routes.Table.{Routed};
ghost use Rattle.gw_relay.specs.History.{Acts, AreStatesAfter, acts_after, acts_later, initial_acts, learned_after, ports_from};
ghost use Rattle.gw_relay.specs.State.{after, later, wants_room};
ghost use Rattle.gw_relay.specs.declared.port.Port.{Port};

use crate::change::Change;
use crate::commit::{make, tick_each};
use crate::initial::{first_table, port_states, port_states_with};
use crate::port::PortState;
use gw_addr::NetNum;
use gw_configuration::Config;
use gw_rules::Format;
use gw_tables::bdt_fdt::PortTables;
use gw_tables::routes::{Route, Routes};
use std::alloc::{AllocError, Global};
use std::marker::Model;

/// The ports of a gateway with their tables, the routes, and the format of its policy. Contracts see
/// the format, whether networks are announced, the ports in order with their tables, the table of routes, and how many
/// ticks have passed.
pub struct Relay {
    format: Format,
    announces: bool,
    ports: Vec<PortState>,
    routes: Routes,
    ticks: u64,
}

// By hand: a derived one is proved part by part wherever one is dropped (docs/GATE.md).
impl Drop for Relay {
    fn drop(self) {
        let Relay {
            format: _,
            announces: _,
            ports: _,
            routes: _,
            ticks: _,
        } = self;
    }
}

impl Model for Relay {
    ghost use Rattle.gw_relay.specs.State.{Relay};
    ghost use Rattle.gw_relay.specs.internal.Ticks.{AreAlike};

    ghost Value = { Relay };

    ghost view = { λ r. record {
      format = r.format;
      announce = r.announces;
      ports = r.ports.items;
      routes = r.routes;
      ticks = r.ticks;
    } };

    ghost invariant = { λ r. AreAlike r.ticks r.ports.items };
}

impl Relay {
    /// A relay of this configuration, before any event: each port has the peers that it is
    /// configured with, and none where another broadcast manager is beside it; nobody is registered, and no route is learned. The only fault is want of
    /// memory.
    pub fn new(alloc: Global, config: &Config) -> Result<Self, AllocError>
        ensures initial { IfOk result (λ relay. relay ≡ initial config.now) }
        ensures stands { let ports = config.now.ports in
            IfOk result (λ relay.
            AreStatesAfter relay.ports (ports_from 1 ports) (map initial_acts ports)) }
        ensures learnings { let configured = map routed_of config.now.routes in
            IfOk result (λ relay. IsStateAfter relay.routes (direct_of config.now) configured []) }
    {
        let ports = port_states(alloc, config.ports())?;
        let routes = first_table(alloc, config)?;
        Ok(Relay {
            format: config.format(),
            announces: config.announces(),
            ports,
            routes,
            ticks: 0,
        })
    }

    /// A relay of this configuration that goes on: each port, in order, has the tables at its place,
    /// which have seen so many ticks, and empty ones where another broadcast manager is beside it; and the routes are learned, each unless its network is direct
    /// or configured, or the table is full. The only fault is want of memory.
    pub fn resume(
        alloc: Global,
        config: &Config,
        tables: Vec<PortTables>,
        learned: &[(NetNum, Route)],
        ticks: u64,
    ) -> Result<Self, AllocError>
        requires tables { length tables.items ≡ length config.now.ports }
        requires ticks { AllByRecursion (λ t. t.fdt.ticks ≡ ticks) tables.items }
        ensures { IfOk result
            (λ relay. relay ≡ resumed config.now tables.items learned.now ticks) }
    {
        let ports = port_states_with(alloc, config.ports(), tables)?;
        let mut routes = first_table(alloc, config)?;
        routes.learn_by(learned)?;
        Ok(Relay {
            format: config.format(),
            announces: config.announces(),
            ports,
            routes,
            ticks,
        })
    }

    /// The ports with their tables, in order.
    pub fn ports(&self) -> &[PortState]
        ensures { result.now ≡ self.now.ports }
    {
        self.ports.as_slice()
    }

    /// The format of the policy, by which asks are put.
    pub fn format(&self) -> Format
        ensures { result ≡ self.now.format }
    {
        self.format
    }

    /// Whether networks are announced.
    pub fn announces(&self) -> bool
        ensures { result ≡ self.now.announce }
    {
        self.announces
    }

    /// The table of routes.
    pub fn routes(&self) -> &Routes
        ensures { result.now ≡ self.now.routes }
    {
        &self.routes
    }

    /// Makes a change whole. If a registration finds no room, a deletion no registration, or
    /// either no port, nothing changes; a network that is fixed or finds the routes full is passed
    /// over. The only fault is want of memory for a registration or for routes; then nothing
    /// changed either.
    pub fn commit(&mut self, change: Change) -> Result<(), AllocError>
        ensures ok { OnOk result (self.new ≡ after change self.old) }
        // What is the state after some acts is then the state after the acts with this one.
        ensures stands { OnOk result ((ports : List Port) (acts : List Acts) →
            AreStatesAfter self.old.ports ports acts →
            AreStatesAfter self.new.ports ports (acts_after change acts)) }
        // So do the routes, by the networks that were granted to be learned.
        ensures learnings { OnOk result ((direct : List ℕ) (configured : Routed) (h : Learned) →
            IsStateAfter self.old.routes direct configured h →
            IsStateAfter self.new.routes direct configured
            (learned_after change self.old.routes h)) }
        ensures err { OnErr result (self.new ≡ self.old) }
        ensures no_growth { wants_room change ≡ false → IsOk result }
    {
        make(&mut self.ports, &mut self.routes, change)?;
        Ok(())
    }

    /// One second passes on all ports. The caller sees to it that there are no more than 2 to the
    /// power of 63 ticks.
    #[inline(always)]
    pub fn tick(&mut self)
        requires { self.old.ticks < 2 ^ 63 }
        ensures later { self.new ≡ later self.old }
        ensures stands { (ports : List Port) (acts : List Acts) →
            AreStatesAfter self.old.ports ports acts →
            AreStatesAfter self.new.ports ports (map acts_later acts) }
    {
        tick_each(&mut self.ports);
        self.ticks += 1;
    }

    /// How many ticks have passed.
    pub fn ticks(&self) -> u64
        ensures { result ≡ self.now.ticks }
    {
        self.ticks
    }
}
