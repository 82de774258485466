//! What is saved of the ports.
ghost use Rattle.std.specs.Prelude.{◌≡◌, [], length, IfOk, vec_capacity};
ghost use Rattle.gw_core.specs.Resumed.{saved_ports};

use gw_relay::PortState;
use gw_state::{OriginPort, SavedPort};
use std::alloc::{AllocError, Global};

/// An empty list with memory for these ports.
fn empty_list(alloc: Global, ports: &[OriginPort]) -> Result<Vec<SavedPort>, AllocError>
    ensures empty { IfOk result (λ saved. saved.items ≡ []) }
    ensures room { IfOk result (λ saved. vec_capacity saved ≡ length ports.now) }
{
    Vec::with_capacity(alloc, ports.len())
}

/// The ports with the tables that they have now, which have the same order. The only fault is want of
/// memory.
pub(crate) fn saved_ports(
    alloc: Global,
    ports: &[OriginPort],
    states: &[PortState],
) -> Result<Vec<SavedPort>, AllocError>
    ensures { IfOk result (λ saved. saved.items ≡ saved_ports ports.now states.now) }
{
    let mut saved = empty_list(alloc, ports)?;
    for (place, port) in ports.iter().enumerate() {
        let Some(state) = states.get(place) else {
            return Ok(saved);
        };
        saved.push(port.save(alloc, &state.bdt, &state.fdt)?)?;
    }
    Ok(saved)
}
