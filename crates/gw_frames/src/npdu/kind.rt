//! The types of network layer messages that the standard names, of clause 6.2.4.

ghost use Rattle.std.specs.Prelude.{◌≡◌, Some, IfSome};
ghost use Rattle.gw_frames.specs.npdu.Kind.{kind_number};

/// A type of network layer messages, by its name in clause 6.4.
///
/// A message carries the number ([`NetMessage::kind`](crate::npdu::NetMessage)), since a number without a name can be sent
/// and read too: the standard keeps 0A to 11 and 14 to 7F for itself, and vendors number from 80 on.
#[derive(Clone, Copy, Debug)]
pub enum MessageKind {
    /// `00` Who-Is-Router-To-Network.
    WhoIsRouterToNetwork,
    /// `01` I-Am-Router-To-Network.
    IAmRouterToNetwork,
    /// `02` I-Could-Be-Router-To-Network.
    ICouldBeRouterToNetwork,
    /// `03` Reject-Message-To-Network.
    RejectMessageToNetwork,
    /// `04` Router-Busy-To-Network.
    RouterBusyToNetwork,
    /// `05` Router-Available-To-Network.
    RouterAvailableToNetwork,
    /// `06` Initialize-Routing-Table.
    InitializeRoutingTable,
    /// `07` Initialize-Routing-Table-Ack.
    InitializeRoutingTableAck,
    /// `08` Establish-Connection-To-Network.
    EstablishConnectionToNetwork,
    /// `09` Disconnect-Connection-To-Network.
    DisconnectConnectionToNetwork,
    /// `12` What-Is-Network-Number.
    WhatIsNetworkNumber,
    /// `13` Network-Number-Is.
    NetworkNumberIs,
}

impl MessageKind {
    /// The number of the type, as it is in the message.
    pub fn number(self) -> u8
        ensures { result ≡ kind_number self }
    {
        match self {
            MessageKind::WhoIsRouterToNetwork => 0x00,
            MessageKind::IAmRouterToNetwork => 0x01,
            MessageKind::ICouldBeRouterToNetwork => 0x02,
            MessageKind::RejectMessageToNetwork => 0x03,
            MessageKind::RouterBusyToNetwork => 0x04,
            MessageKind::RouterAvailableToNetwork => 0x05,
            MessageKind::InitializeRoutingTable => 0x06,
            MessageKind::InitializeRoutingTableAck => 0x07,
            MessageKind::EstablishConnectionToNetwork => 0x08,
            MessageKind::DisconnectConnectionToNetwork => 0x09,
            MessageKind::WhatIsNetworkNumber => 0x12,
            MessageKind::NetworkNumberIs => 0x13,
        }
    }

    /// The type of this number, or None if the standard names none.
    pub fn from_number(number: u8) -> Option<MessageKind>
        ensures found { IfSome result (λ kind. kind_number kind ≡ number) }
        ensures only { (kind : MessageKind) → kind_number kind ≡ number → result ≡ Some kind }
    {
        match number {
            0x00 => Some(MessageKind::WhoIsRouterToNetwork),
            0x01 => Some(MessageKind::IAmRouterToNetwork),
            0x02 => Some(MessageKind::ICouldBeRouterToNetwork),
            0x03 => Some(MessageKind::RejectMessageToNetwork),
            0x04 => Some(MessageKind::RouterBusyToNetwork),
            0x05 => Some(MessageKind::RouterAvailableToNetwork),
            0x06 => Some(MessageKind::InitializeRoutingTable),
            0x07 => Some(MessageKind::InitializeRoutingTableAck),
            0x08 => Some(MessageKind::EstablishConnectionToNetwork),
            0x09 => Some(MessageKind::DisconnectConnectionToNetwork),
            0x12 => Some(MessageKind::WhatIsNetworkNumber),
            0x13 => Some(MessageKind::NetworkNumberIs),
            _ => None,
        }
    }
}
