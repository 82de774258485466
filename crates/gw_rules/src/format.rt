//! The format of a policy.
ghost use Rattle.std.specs.Prelude.{◌≡◌};
ghost use Rattle.gw_rules.specs.Format.{key_in, names_stations};

use gw_addr::{Mac, key_of, key48};

/// The format of a policy: what its asks say, and by what a request is judged that goes on to another
/// network.
#[derive(Clone, Copy)]
pub enum Format {
    /// 1: by its way alone.
    One,
    /// 2: by its way, and by each property that it reads or writes there.
    Two,
    /// 3: so too, and each ask says which station sent the datagram; who comes from no known station and
    /// who speaks for another network is judged first.
    Three,
}

impl Format {
    /// Whether asks say which station sent the datagram, and which one it names: so it is in format 3.
    pub fn names_stations(self) -> bool
        ensures { result ≡ names_stations self }
    {
        match self {
            Format::One | Format::Two => false,
            Format::Three => true,
        }
    }

    /// The key that an ask says for a station: in format 3 that of one to seven octets, as
    /// [`Mac::key`] says, else that of six, as [`Mac::key48`] says; `None` for a station of other length.
    pub fn key(self, station: &Mac) -> Option<u64>
        ensures { result ≡ key_in self station.now }
    {
        self.key_in(station.as_slice())
    }

    /// The same for the octets of a station.
    pub fn key_in(self, octets: &[u8]) -> Option<u64>
        ensures { result ≡ key_in self octets.now }
    {
        if self.names_stations() {
            key_of(octets)
        } else {
            key48(octets)
        }
    }
}
