//! What holds of every read and every write. The functions do nothing: their contracts are the laws.

ghost use Rattle.std.specs.Prelude.{◌≡◌};
ghost use Rattle.gw_objects.specs.Laws.{OthersReadAlike, WritesAreInPlace, WritesCanBeMade, WritesKeepAgreement, WritesLeaveOthers};
ghost use Rattle.gw_objects.specs.Values.{SameValuesAreEqual};

use crate::table::MAX_APDU;
use gw_configuration::MAX_TEXT;

/// The limits are 255 octets of a text that is written, and 1476 of an APDU that the device takes.
pub fn limits()
    ensures text { MAX_TEXT ≡ 255 }
    ensures apdu { MAX_APDU ≡ 1476 }
{}

/// What a property of an object reads as doesn't rest on the slots and the default of another object;
/// and a write leaves those of every object but its own.
pub fn other_objects()
    ensures reads { OthersReadAlike }
    ensures place { WritesAreInPlace }
    ensures writes { WritesLeaveOthers }
    ensures agreement { WritesKeepAgreement }
{}

/// A write that is made at a priority of 1 to 16 commands or relinquishes there, where it isn't the
/// reserved one, or sets a default (clause 19.2).
pub fn priorities()
    ensures { WritesCanBeMade }
{}

/// Two values are the same exactly if they are equal.
pub fn same_values()
    ensures { SameValuesAreEqual }
{}
