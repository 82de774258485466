//! The stations of a port.
ghost use Rattle.std.specs.Prelude.{◌≡◌, ◌≤◌, Some, None, IfOk, length, nat_le, if◌then◌else◌};

use crate::Subnet;
use gw_addr::Sequence;
use std::alloc::{AllocError, Global};
use std::marker::Model;

/// How many subnets the stations of a port have at most.
pub const MAX_STATIONS: usize = 16;

/// The stations of a port: the subnets of their IPv4 addresses in order, at most 16. With none the port
/// names no stations. Contracts see the list of them.
pub struct Stations {
    subnets: Sequence<Subnet>,
}

// By hand: a derived one is proved part by part wherever one is dropped (docs/GATE.md).
impl Drop for Stations {
    fn drop(self) {
        let Stations { subnets: _ } = self;
    }
}

impl Model for Stations {
    ghost use Rattle.std.specs.Prelude.{◌≤◌, List, length};
    ghost use Rattle.gw_configuration.specs.Subnet as spec;

    ghost Value = { List spec.Subnet };

    ghost view = { λ s. s.subnets };

    ghost invariant = { λ s. length s.subnets ≤ 16 };
}

impl Stations {
    /// The stations of these subnets, or `None` if there are more than 16.
    pub fn new(subnets: Sequence<Subnet>) -> Option<Self>
        ensures { result ≡ (if nat_le (length subnets) 16 then Some subnets else None) }
    {
        if subnets.len() <= MAX_STATIONS {
            Some(Stations { subnets })
        } else {
            None
        }
    }

    /// The subnets in order, at most 16.
    pub fn as_slice(&self) -> &[Subnet]
        ensures subnets { result.now ≡ self.now }
        ensures few { length self.now ≤ 16 }
    {
        self.subnets.as_slice()
    }

    /// A copy of them.
    pub fn copy(&self, alloc: Global) -> Result<Self, AllocError>
        ensures { IfOk result (λ copy. copy ≡ self.now) }
    {
        let mut subnets = Sequence::new(alloc);
        for subnet in self.as_slice() {
            subnets.push(*subnet)?;
        }
        Ok(Stations { subnets })
    }
}
