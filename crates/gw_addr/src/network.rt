//! Network numbers (clause 6.1): 1 to 65534. 0 is no network, and 65535 represents all of them.

ghost use Rattle.std.specs.Prelude.{◌≡◌, ◌↔◌, ◌≤◌};
ghost use Rattle.std.specs.Prelude.{Some, IsTrue};
ghost use Rattle.std.specs.Fmt.{decimal};
ghost use Rattle.gw_addr.specs.Appending.{IsAppended};
ghost use Rattle.gw_addr.specs.Station.{network_of};

use crate::writers::put_decimal;
use std::alloc::AllocError;
use std::fmt;
use std::marker::Model;

/// The number of a network, 1 to 65534 (clause 6.1).
#[derive(Clone, Copy, Debug, PartialEq, Eq, Hash)]
pub struct NetNum {
    number: u16,
}

impl Model for NetNum {
    ghost use Rattle.std.specs.Prelude.{ℕ, ◌≤◌};

    ghost Value = { ℕ };

    ghost view = { λ n. n.number };

    ghost invariant = { λ n. (1 ≤ n.number) × (n.number ≤ 65534) };

    ghost inverse = { λ n. record { number = n } };
}

impl NetNum {
    /// The network of that number, or `None` outside 1 to 65534.
    pub fn new(number: u16) -> Option<NetNum>
        ensures { result ≡ network_of number }
    {
        if matches!(number, 1..=65534) {
            Some(NetNum { number })
        } else {
            None
        }
    }

    /// The number, 1 to 65534.
    pub fn get(self) -> u16
        ensures value { result ≡ self }
        ensures low { 1 ≤ result }
        ensures high { result ≤ 65534 }
    {
        self.number
    }

    /// Whether it is that network.
    pub fn is_same(self, other: NetNum) -> bool
        ensures { IsTrue result ↔ (self ≡ other) }
    {
        self == other
    }

    /// Appends the decimal digits of the number. An `Err` only if the buffer had no room for
    /// them.
    pub fn put_text(self, out: &mut Vec<u8>) -> Result<(), AllocError>
        ensures { IsAppended (decimal self) out.old out.new result }
    {
        put_decimal(out, self.number)
    }
}

impl fmt::Display for NetNum {
    ghost output = { λ n. Some (decimal n) };

    fn fmt<W: fmt::Write>(&self, f: &mut fmt::Formatter<W>) -> fmt::Result {
        let number = self.number;
        write!(f, "{number}")
    }
}
