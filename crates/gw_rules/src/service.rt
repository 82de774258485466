//! The services that asks and rules name by one number.
ghost use Rattle.std.specs.Prelude.{◌≡◌};
ghost use Rattle.gw_rules.specs.Service.{service_number};

/// The number of unconfirmed service 0.
const UNCONFIRMED: u64 = 256;
/// The number of network message 0.
const NETWORK_MESSAGE: u64 = 512;
/// The number of BVLL function 0.
const BVLL_FUNCTION: u64 = 768;
/// The number of PDU type 0.
const PDU_TYPE: u64 = 1024;

/// A service, or what takes its place in a message that is no request. The standard numbers
/// each kind from 0, so each kind has a base of its own. The bases are this project's own.
#[derive(Clone, Copy)]
pub enum Service {
    /// A confirmed service by its choice (clause 21): from 0.
    Confirmed(u8),
    /// An unconfirmed service by its choice (clause 21): from 256.
    Unconfirmed(u8),
    /// A network message by its type (clause 6.2.4): from 512.
    NetworkMessage(u8),
    /// A BVLL function (Annex J.2): from 768.
    BvllFunction(u8),
    /// An APDU that is no request, by its PDU type, 2 to 7 (clause 20.1): from 1024.
    Pdu(u8),
}

impl Service {
    /// The number under which asks and rules name it.
    pub fn number(self) -> u64
        ensures { result ≡ service_number self }
    {
        match self {
            Service::Confirmed(choice) => u64::from(choice),
            Service::Unconfirmed(choice) => UNCONFIRMED + u64::from(choice),
            Service::NetworkMessage(kind) => NETWORK_MESSAGE + u64::from(kind),
            Service::BvllFunction(function) => BVLL_FUNCTION + u64::from(function),
            Service::Pdu(kind) => PDU_TYPE + u64::from(kind),
        }
    }
}
