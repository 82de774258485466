//! An answer of the device, in the buffer that it is sent from.

ghost use Rattle.std.specs.Prelude.{◌≡◌, ◌≤◌, drop, vec_len};

/// How many octets an answer keeps for its headers: the four of a frame (Annex J.2.11) and the six of an NPDU that
/// names its source alone (clause 6.2.2).
pub const HEADER_ROOM: usize = 10;

/// What the device answers: an APDU, in the buffer that the caller sends it from.
#[derive(Drop)]
pub struct Answer {
    /// [`HEADER_ROOM`] octets for headers, which say nothing yet, and the octets of the APDU.
    pub octets: Vec<u8>,
    /// Whether it goes to everyone on the requester's network.
    pub broadcast: bool,
    pub ghost room: { 10 ≤ vec_len octets },
}

impl Answer {
    /// The octets of the APDU.
    pub fn apdu(&self) -> &[u8]
        ensures { result.now ≡ drop 10 self.now.octets.items }
    {
        &self.octets[HEADER_ROOM..]
    }
}
