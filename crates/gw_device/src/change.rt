//! A change that is granted.

ghost use Rattle.std.specs.Prelude.{◌≡◌};

use gw_objects::Put;
use std::marker::Model;

/// A write that is granted, for [`Device::commit`](crate::Device::commit). Contracts see what it
/// does, and to which object.
#[derive(Drop)]
pub struct Change {
    put: Put,
}

impl Model for Change {
    ghost use Rattle.gw_objects.specs.Write.{Write};

    ghost Value = { Write };

    ghost view = { λ c. c.put };
}

impl Change {
    /// The change that this write is.
    pub(crate) fn new(put: Put) -> Self
        ensures { result ≡ put }
    {
        Change { put }
    }

    /// The write.
    pub(crate) fn into_put(self) -> Put
        ensures { result ≡ self }
    {
        self.put
    }
}
