//! The message of the network layer, of clause 6.2.

ghost use Rattle.std.specs.Prelude.{◌≡◌};
ghost use Rattle.gw_frames.specs.npdu.Npdu.{priority_of};

use crate::npdu::address::{AddressRef, Destination};
use crate::npdu::message::NetMessage;

/// The version of the protocol, the first octet of each message.
pub(crate) const PROTOCOL_VERSION: u8 = 1;

/// How urgent a message is: bits 1 and 0 of the control octet.
#[derive(Clone, Copy, Debug)]
pub enum Priority {
    /// 0.
    Normal,
    /// 1.
    Urgent,
    /// 2.
    CriticalEquipment,
    /// 3.
    LifeSafety,
}

impl Priority {
    /// The number of the priority, 0 to 3.
    pub fn number(self) -> u8
        ensures { result ≡ priority_of self }
    {
        match self {
            Priority::Normal => 0,
            Priority::Urgent => 1,
            Priority::CriticalEquipment => 2,
            Priority::LifeSafety => 3,
        }
    }
}

/// What a message carries, after all other parts.
#[derive(Clone, Copy, Debug)]
pub enum Payload<'a> {
    /// An APDU of the application layer.
    Apdu(&'a [u8]),
    /// A network layer message.
    Message(NetMessage<'a>),
}

/// A message of the network layer (NPDU).
///
/// ```text
/// +------+---------+--  --+--  --+------+------+--------+--  --+
/// |  01  | control | DNET | SNET | hops | type | vendor |      |
/// |      |         | DLEN | SLEN |      |      |        |      |
/// |      |         | DADR | SADR |      |      |        |      |
/// +------+---------+--  --+--  --+------+------+--------+--  --+
/// ```
///
/// The version, the control octet, the destination and the source if the control octet names them, the hop count
/// of the destination, and the payload. Each number has its high octet first.
#[derive(Clone, Copy, Debug)]
pub struct Npdu<'a> {
    /// Whom the message is bound for. None: a station of the network that it is on.
    pub destination: Option<Destination<'a>>,
    /// Where the message comes from. None: the station that sent it on this network.
    pub source: Option<AddressRef<'a>>,
    /// Whether the sender waits for an answer.
    pub reply_expected: bool,
    /// How urgent the message is.
    pub priority: Priority,
    /// What the message carries.
    pub payload: Payload<'a>,
}
