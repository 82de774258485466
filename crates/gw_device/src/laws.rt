//! What holds of everything that the device does. The functions do nothing: their contracts are the
//! laws.

ghost use Rattle.gw_device.specs.Laws.{AsksHaveTheirSender, AsksHaveTheirSource, ChangesAreAllowed};
ghost use Rattle.gw_device.specs.Laws.{ChangesAreInPlace, ChangesCanBeMade, ChangesRestOnRequests, UnreadIsUnseen};

/// What the device does about an APDU doesn't rest on the slots and the default of an object, where
/// no ask of that APDU to read the object is allowed. Two standings that differ in that object
/// alone have the same asks, the same answer and the same change.
pub fn unread_object()
    ensures { UnreadIsUnseen }
{}

/// A write rests on the configuration and the request alone, is made at the place of the object that
/// the request names, and only where an ask to write is allowed. It commands or relinquishes at a
/// priority of 1 to 16 that isn't the reserved one, or sets a default.
pub fn changes()
    ensures request { ChangesRestOnRequests }
    ensures place { ChangesAreInPlace }
    ensures allowed { ChangesAreAllowed }
    ensures acts { ChangesCanBeMade }
{}

/// Every ask has the source and the sender of the APDU's context, and names no station.
pub fn asks()
    ensures source { AsksHaveTheirSource }
    ensures sender { AsksHaveTheirSender }
{}
