//! Laws of registrations (Annex J.5), of every history. The functions do nothing: their contracts
//! are the laws.
ghost use Rattle.std.specs.Prelude.{◌≡◌};
ghost use Rattle.gw_tables.specs.bdt_fdt.Laws.{EachStandsOnce, LastGrantIsFound, OrderIsOfBeginnings};
ghost use Rattle.gw_tables.specs.bdt_fdt.Laws.{RegisteredStand, SameIsEqual, TableHoldsRegistrations};

use crate::bdt_fdt::{GRACE, MAX_ENTRIES, MAX_REGISTRATIONS, MAX_REMAINING};

/// The limits are 128 registrations, 30 seconds of grace after each (Annex J.5.2.3), 65535 seconds
/// that are shown to remain, and 64 entries of a table of peers.
pub fn limits()
    ensures registrations { MAX_REGISTRATIONS ≡ 128 }
    ensures grace { GRACE ≡ 30 }
    ensures remaining { MAX_REMAINING ≡ 65535 }
    ensures entries { MAX_ENTRIES ≡ 64 }
{}

/// The last grant of an address is the last one; and two addresses are one exactly if all six
/// octets are.
pub fn last_grants()
    ensures same { SameIsEqual }
    ensures last { LastGrantIsFound }
{}

/// After a history each registered address appears once, with its registration, and nobody else
/// does; they are in the order in which their unbroken times of being registered began.
pub fn registrations()
    ensures once { EachStandsOnce }
    ensures stand { RegisteredStand }
    ensures rows { TableHoldsRegistrations }
    ensures order { OrderIsOfBeginnings }
{}
