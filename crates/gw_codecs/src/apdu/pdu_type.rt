//! The eight types of APDUs (clause 20.1).

ghost use Rattle.std.specs.Prelude.{◌≡◌};
ghost use Rattle.gw_codecs.specs.apdu.Apdu.{type_number};
ghost use Rattle.gw_codecs.specs.apdu.Reading.{type_at};

use crate::apdu::fault::ApduFault;

/// A type of APDUs: the four high bits of the first octet.
#[derive(Clone, Copy, Debug)]
pub enum PduType {
    /// 0 BACnet-Confirmed-Request-PDU.
    ConfirmedRequest,
    /// 1 BACnet-Unconfirmed-Request-PDU.
    UnconfirmedRequest,
    /// 2 BACnet-SimpleACK-PDU.
    SimpleAck,
    /// 3 BACnet-ComplexACK-PDU.
    ComplexAck,
    /// 4 BACnet-SegmentACK-PDU.
    SegmentAck,
    /// 5 BACnet-Error-PDU.
    Error,
    /// 6 BACnet-Reject-PDU.
    Reject,
    /// 7 BACnet-Abort-PDU.
    Abort,
}

impl PduType {
    /// The number of the type.
    pub fn number(self) -> u8
        ensures { result ≡ type_number self }
    {
        match self {
            PduType::ConfirmedRequest => 0,
            PduType::UnconfirmedRequest => 1,
            PduType::SimpleAck => 2,
            PduType::ComplexAck => 3,
            PduType::SegmentAck => 4,
            PduType::Error => 5,
            PduType::Reject => 6,
            PduType::Abort => 7,
        }
    }

    /// The type of an APDU with this first octet. `Kind` if it is from 8 to 15.
    pub(crate) fn of_first(first: u8) -> Result<PduType, ApduFault>
        ensures { result ≡ type_at first }
    {
        match first >> 4 {
            0 => Ok(PduType::ConfirmedRequest),
            1 => Ok(PduType::UnconfirmedRequest),
            2 => Ok(PduType::SimpleAck),
            3 => Ok(PduType::ComplexAck),
            4 => Ok(PduType::SegmentAck),
            5 => Ok(PduType::Error),
            6 => Ok(PduType::Reject),
            7 => Ok(PduType::Abort),
            _ => Err(ApduFault::Kind),
        }
    }
}
