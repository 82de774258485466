//! The ports of a gateway.
ghost use Rattle.std.specs.Prelude.{◌≡◌, ◌≤◌, Some, None, length, nat_le, if◌then◌else◌};
ghost use Rattle.gw_configuration.specs.Configuration.{is_beside, is_managed};

use crate::Stations;
use gw_addr::{BdtEntry, BipAddr, NetNum, Sequence};
use std::marker::Model;

/// How many peers a port has at most.
pub const MAX_PEERS: usize = 64;

/// A port: the BACnet/IP network on one UDP port of the gateway.
pub struct Port {
    /// The number of the network.
    pub network: NetNum,
    /// The gateway's own address on it.
    pub address: BipAddr,
    /// Where a broadcast on it goes (Annex J.1.2).
    pub broadcast: BipAddr,
    /// The stations of the network. If there is none, any address may be one.
    pub stations: Stations,
    /// The broadcast manager of its subnet, where that isn't the port itself. Then the port has no peers and
    /// no foreign devices: it distributes nothing, and hears a Forwarded-NPDU from this address alone.
    pub bbmd: Option<BipAddr>,
    /// The broadcast managers of the other subnets with which it starts, at most 64 of which no two
    /// have one address (Annex J.4).
    pub peers: Peers,
}

// By hand: a derived one is proved part by part wherever one is dropped (docs/GATE.md).
impl Drop for Port {
    fn drop(self) {
        let Port {
            network: _,
            address: _,
            broadcast: _,
            stations: _,
            bbmd: _,
            peers: _,
        } = self;
    }
}

impl Port {
    /// Whether the port is the broadcast manager of its subnet, or has another one beside it: one that has neither the
    /// port's own address nor its broadcast address, while the port has no peers.
    pub fn is_managed(&self) -> bool
        ensures { result ≡ is_managed self.now }
    {
        match self.bbmd {
            Some(manager) => self.is_beside(manager),
            None => true,
        }
    }

    fn is_beside(&self, manager: BipAddr) -> bool
        ensures { result ≡ is_beside self.now manager }
    {
        manager != self.address && manager != self.broadcast && self.peers.as_slice().is_empty()
    }
}

/// Peers in order, at most 64. Contracts see the list of them.
pub struct Peers {
    entries: Sequence<BdtEntry>,
}

// By hand: a derived one is proved part by part wherever one is dropped (docs/GATE.md).
impl Drop for Peers {
    fn drop(self) {
        let Peers { entries: _ } = self;
    }
}

impl Model for Peers {
    ghost use Rattle.std.specs.Prelude.{◌≤◌, List, length};
    ghost use Rattle.gw_addr.specs.declared.entry.BdtEntry.{BdtEntry};

    ghost Value = { List BdtEntry };

    ghost view = { λ p. p.entries };

    ghost invariant = { λ p. length p.entries ≤ 64 };
}

impl Peers {
    /// These peers, or `None` where there are more than 64.
    pub fn new(entries: Sequence<BdtEntry>) -> Option<Self>
        ensures { result ≡ (if nat_le (length entries) 64 then Some entries else None) }
    {
        if entries.len() <= MAX_PEERS {
            Some(Peers { entries })
        } else {
            None
        }
    }

    /// The peers in order, at most 64.
    pub fn as_slice(&self) -> &[BdtEntry]
        ensures peers { result.now ≡ self.now }
        ensures few { length self.now ≤ 64 }
    {
        self.entries.as_slice()
    }
}
