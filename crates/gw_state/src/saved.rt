//! What of a gateway outlives it.
ghost use Rattle.std.specs.Prelude.{◌≡◌, ◌≤◌, ◌↔◌, ◌^◌, ◌&&◌, not, IfOk, IsErrOf, IsFalse, IsOk, IsTrue};
ghost use Rattle.gw_state.specs.Saved.{are_countable, are_few, with_denials};

use crate::{SavedCounts, SavedFault, SavedObject, SavedPort};
use gw_addr::{MAX_PORTS, NetNum};
use gw_configuration::MAX_OBJECTS;
use gw_tables::routes::{MAX_ROUTES, Route};
use std::marker::Model;

/// What of a gateway outlives it: each port with its two tables, the learned routes, each value object
/// with its slots, and the counts. It has at most 8 ports, 512 routes and 256 objects. A route's port is
/// the number of one of these ports, counted from 1. Contracts see the parts.
pub struct Saved {
    ports: Vec<SavedPort>,
    routes: Vec<(NetNum, Route)>,
    objects: Vec<SavedObject>,
    counts: SavedCounts,
}

// By hand: a derived one is proved part by part wherever one is dropped (docs/GATE.md).
impl Drop for Saved {
    fn drop(self) {
        let Saved {
            ports: _,
            routes: _,
            objects: _,
            counts: _,
        } = self;
    }
}

impl Model for Saved {
    ghost use Rattle.std.specs.Prelude.{IsTrue};
    ghost use Rattle.gw_state.specs.Saved.{Saved, are_countable, are_few};

    ghost Value = { Saved };

    ghost view = { λ s. record {
      ports = s.ports.items;
      routes = s.routes.items;
      objects = s.objects.items;
      counts = s.counts;
    } };

    ghost invariant = { λ s.
        IsTrue (are_few s.ports.items s.routes.items s.objects.items) × IsTrue (are_countable s.counts) };
}

impl Saved {
    /// These parts, which it takes over: it wants no memory.
    ///
    /// The faults: `TooMany` if there are more than 8 ports, 512 routes or 256 objects; else `Counts` if
    /// the tables have seen more ticks than the gateway, or a count is past 2^63. Then the parts are
    /// dropped.
    pub fn new(
        ports: Vec<SavedPort>,
        routes: Vec<(NetNum, Route)>,
        objects: Vec<SavedObject>,
        counts: SavedCounts,
    ) -> Result<Self, SavedFault>
        ensures ports { IfOk result (λ saved. saved.ports ≡ ports.items) }
        ensures routes { IfOk result (λ saved. saved.routes ≡ routes.items) }
        ensures objects { IfOk result (λ saved. saved.objects ≡ objects.items) }
        ensures counts { IfOk result (λ saved. saved.counts ≡ counts) }
        ensures accepted { IsOk result ↔
            IsTrue (are_few ports.items routes.items objects.items && are_countable counts) }
        ensures too_many { IsErrOf result SavedFault.TooMany ↔
            IsFalse (are_few ports.items routes.items objects.items) }
        ensures uncountable { IsErrOf result SavedFault.Counts ↔
            IsTrue (are_few ports.items routes.items objects.items && not (are_countable counts)) }
    {
        if !are_few(&ports, &routes, &objects) {
            return Err(SavedFault::TooMany);
        }
        if !counts.are_countable() {
            return Err(SavedFault::Counts);
        }
        Ok(Saved {
            ports,
            routes,
            objects,
            counts,
        })
    }

    /// The ports in order, at most 8.
    pub fn ports(&self) -> &[SavedPort]
        ensures ports { result.now ≡ self.now.ports }
        ensures few { IsTrue (are_few self.now.ports self.now.routes self.now.objects) }
    {
        self.ports.as_slice()
    }

    /// The learned routes in the order in which they were learned first, at most 512. The port of each is
    /// the number of one of the ports, counted from 1.
    pub fn routes(&self) -> &[(NetNum, Route)]
        ensures routes { result.now ≡ self.now.routes }
        ensures few { IsTrue (are_few self.now.ports self.now.routes self.now.objects) }
    {
        self.routes.as_slice()
    }

    /// The value objects in order, at most 256.
    pub fn objects(&self) -> &[SavedObject]
        ensures objects { result.now ≡ self.now.objects }
        ensures few { IsTrue (are_few self.now.ports self.now.routes self.now.objects) }
    {
        self.objects.as_slice()
    }

    /// The counts, of which none is past 2^63.
    pub fn counts(&self) -> SavedCounts
        ensures counts { result ≡ self.now.counts }
        ensures since { result.since ≤ result.ticks }
        ensures ticks { result.ticks ≤ 2 ^ 63 }
        ensures denials { result.denials ≤ 2 ^ 63 }
    {
        self.counts
    }

    /// The same, with this number of the last denial.
    pub fn with_denials(self, denials: u64) -> Self
        requires { denials ≤ 2 ^ 63 }
        ensures { result ≡ with_denials self denials }
    {
        let Saved {
            ports,
            routes,
            objects,
            counts,
        } = self;
        Saved {
            ports,
            routes,
            objects,
            counts: SavedCounts {
                since: counts.since,
                ticks: counts.ticks,
                denials,
            },
        }
    }
}

/// Whether there are at most 8 ports, 512 routes and 256 objects.
fn are_few(ports: &[SavedPort], routes: &[(NetNum, Route)], objects: &[SavedObject]) -> bool
    ensures { result ≡ are_few ports.now routes.now objects.now }
{
    ports.len() <= MAX_PORTS && routes.len() <= MAX_ROUTES && objects.len() <= MAX_OBJECTS
}
