//! The instance numbers of objects.
ghost use Rattle.std.specs.Prelude.{◌≡◌, ◌≤◌, Some, None, nat_le, if◌then◌else◌};

use std::marker::Model;

/// The greatest instance number that an object may be configured with: 4194303 is none
/// (clause 20.2.14).
pub const MAX_INSTANCE: u32 = 4_194_302;

/// The instance number of an object, 0 to 4194302. Contracts see the number.
#[derive(Clone, Copy)]
pub struct Instance {
    number: u32,
}

impl Model for Instance {
    ghost use Rattle.std.specs.Prelude.{ℕ, ◌≤◌};

    ghost Value = { ℕ };

    ghost view = { λ i. i.number };

    ghost invariant = { λ i. i.number ≤ 4194302 };

    ghost inverse = { λ i. record { number = i } };
}

impl Instance {
    /// The instance of that number, or `None` where it is over 4194302.
    pub fn new(number: u32) -> Option<Self>
        ensures { result ≡ (if nat_le number 4194302 then Some number else None) }
    {
        if number <= MAX_INSTANCE {
            Some(Instance { number })
        } else {
            None
        }
    }

    /// The number, 0 to 4194302.
    pub fn get(self) -> u32
        ensures value { result ≡ self }
        ensures high { result ≤ 4194302 }
    {
        self.number
    }
}
