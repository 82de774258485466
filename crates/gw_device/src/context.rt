//! What the device knows of an APDU besides its octets.

/// What the device knows of an APDU besides its octets.
#[derive(Clone, Copy)]
pub struct Context {
    /// How many octets the APDU of a ComplexACK may have on its way back.
    pub room: usize,
    /// The key of the station that it claims to come from, where its address has six octets.
    pub source_key: Option<u64>,
    /// The network that it claims to come from.
    pub source_network: u16,
    /// The key of the station whose datagram it is, in format 3; in formats 1 and 2 there is none.
    pub sender: Option<u64>,
    /// The number of the port that it came on, from 1.
    pub port: u8,
    /// Whether it went to more than this device.
    pub broadcast: bool,
}
