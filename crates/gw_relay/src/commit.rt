//! What changes in the tables of the ports, and in the routes.

ghost use Rattle.std.specs.Prelude.{◌≡◌, ◌<◌, ◌^◌, ℕ, List, false, map, IsOk, OnOk, OnErr};
ghost use Rattle.std.specs.List.{AllByRecursion};
ghost use Rattle.gw_tables.specs.routes.History.{IsStateAfter};
ghost use Rattle.gw_tables.specs.routes.History.{History as Learned};
ghost use Rattle.gw_tables.specs.routes.Table.{Routed};
ghost use Rattle.gw_relay.specs.History.{learned_after};
ghost use Rattle.gw_relay.specs.State.{deleted, port_later, ports_after, registered, routes_after, wants_room};

use crate::change::Change;
use crate::port::PortState;
use gw_addr::BipAddr;
use gw_tables::bdt_fdt::{Bdt, Fdt, RegisterFault};
use gw_tables::routes::Routes;
use std::alloc::AllocError;

/// Makes a change whole. The only fault is want of memory for a registration or for
/// routes; then nothing changed.
pub(crate) fn make(
    ports: &mut [PortState],
    routes: &mut Routes,
    change: Change,
) -> Result<(), AllocError>
    ensures ok { OnOk result (ports.new ≡ ports_after change ports.old) }
    ensures learned { OnOk result (routes.new ≡ routes_after change routes.old) }
    ensures learnings { OnOk result ((direct : List ℕ) (configured : Routed) (h : Learned) →
        IsStateAfter routes.old direct configured h →
        IsStateAfter routes.new direct configured (learned_after change routes.old h)) }
    ensures err { OnErr result (ports.new ≡ ports.old) }
    ensures unlearned { OnErr result (routes.new ≡ routes.old) }
    ensures no_growth { wants_room change ≡ false → IsOk result }
{
    match change {
        Change::Entries { port, bdt } => {
            replace(ports, port, bdt);
            Ok(())
        }
        Change::Registration {
            port,
            address,
            time_to_live,
        } => register(ports, port, address, time_to_live),
        Change::Deletion { port, address } => {
            delete(ports, port, address);
            Ok(())
        }
        Change::Learnings {
            port,
            next,
            networks,
        } => routes.learn_all(networks.as_slice(), port, next),
    }
}

/// A table takes the place of a port's.
fn replace(ports: &mut [PortState], port: u8, bdt: Bdt)
    ensures { ports.new ≡ ports_after (Change.Entries port bdt) ports.old }
{
    if port == 0 || usize::from(port) > ports.len() {
        return;
    }
    let state = &mut ports[usize::from(port) - 1];
    state.bdt = bdt;
}

/// A foreign device registers, if there is room for it.
fn register(
    ports: &mut [PortState],
    port: u8,
    address: BipAddr,
    time_to_live: u16,
) -> Result<(), AllocError>
    ensures ok { OnOk result
        (ports.new ≡ ports_after (Change.Registration port address time_to_live) ports.old) }
    ensures err { OnErr result (ports.new ≡ ports.old) }
{
    if port == 0 || usize::from(port) > ports.len() {
        return Ok(());
    }
    let state = &mut ports[usize::from(port) - 1];
    registered(&mut state.fdt, address, time_to_live)?;
    Ok(())
}

/// A foreign device registers with a table, if there is room for it.
fn registered(fdt: &mut Fdt, address: BipAddr, time_to_live: u16) -> Result<(), AllocError>
    ensures ok { OnOk result (fdt.new ≡ registered address time_to_live fdt.old) }
    ensures err { OnErr result (fdt.new ≡ fdt.old) }
{
    match fdt.register(address, time_to_live) {
        Ok(()) | Err(RegisterFault::Full) => Ok(()),
        Err(RegisterFault::Memory) => Err(AllocError),
    }
}

/// A registration is deleted, if it is there.
fn delete(ports: &mut [PortState], port: u8, address: BipAddr)
    ensures { ports.new ≡ ports_after (Change.Deletion port address) ports.old }
{
    if port == 0 || usize::from(port) > ports.len() {
        return;
    }
    let state = &mut ports[usize::from(port) - 1];
    deleted(&mut state.fdt, address);
}

/// A registration of a table is deleted, if it is there.
fn deleted(fdt: &mut Fdt, address: BipAddr)
    ensures { fdt.new ≡ deleted address fdt.old }
{
    let _is_deleted = fdt.delete(address).is_ok();
}

/// One second passes on each port.
pub(crate) fn tick_each(ports: &mut [PortState])
    requires { AllByRecursion (λ state. state.fdt.ticks < 2 ^ 63) ports.old }
    ensures { ports.new ≡ map port_later ports.old }
{
    for state in ports.iter_mut() {
        state.fdt.tick();
    }
}
