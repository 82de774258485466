//! The two tables of a broadcast manager.
ghost use Rattle.std.specs.Prelude.{◌≡◌, []};
ghost use Rattle.gw_tables.specs.bdt_fdt.Registrations.{emptied};

use crate::bdt_fdt::bdt::Bdt;
use crate::bdt_fdt::fdt::Fdt;
use std::alloc::Global;

/// The two tables of the broadcast manager of a port (Annex J.4, J.5).
pub struct PortTables {
    /// The broadcast distribution table.
    pub bdt: Bdt,
    /// The foreign device table.
    pub fdt: Fdt,
}

// By hand: a derived one is proved part by part wherever one is dropped (docs/GATE.md).
impl Drop for PortTables {
    fn drop(self) {
        let PortTables { bdt: _, fdt: _ } = self;
    }
}

impl PortTables {
    /// The two tables.
    pub fn into_parts(self) -> (Bdt, Fdt)
        ensures { result ≡ (self.bdt, self.fdt) }
    {
        let PortTables { bdt, fdt } = self;
        (bdt, fdt)
    }

    /// The two tables without an entry: no peers, and nobody registered. They take no memory.
    pub fn emptied(self, alloc: Global) -> PortTables
        ensures bdt { result.bdt ≡ [] }
        ensures fdt { result.fdt ≡ emptied self.fdt }
    {
        let (_, fdt) = self.into_parts();
        PortTables {
            bdt: Bdt::from_vec(Vec::new(alloc)).unwrap(),
            fdt: fdt.emptied(alloc),
        }
    }
}
