//! APDUs and their headers (clauses 20.1.2 to 20.1.9).

use crate::apdu::pdu_type::PduType;

/// Which part of a segmented message this is (clauses 20.1.2.7 and 20.1.2.8).
#[derive(Clone, Copy, Debug)]
pub struct Segment {
    /// Whether more segments follow.
    pub more_follows: bool,
    /// The number of the segment, from 0, modulo 256.
    pub sequence: u8,
    /// How many segments the sender would send before an acknowledgement.
    pub window: u8,
}

/// The header of a confirmed request (clause 20.1.2).
///
/// ```text
///   7   6   5   4   3   2   1   0
/// +---+---+---+---+---+---+---+---+
/// |       0       |SEG|MOR|SA | - |    MOR only if SEG is set
/// +---+---+---+---+---+---+---+---+
/// | - |   max segs |   max APDU   |
/// +---+---+---+---+---+---+---+---+
/// |           invoke id           |
/// +---+---+---+---+---+---+---+---+
/// | sequence number, then window  |    two octets, only if SEG is set
/// +---+---+---+---+---+---+---+---+
/// |        service choice         |
/// +---+---+---+---+---+---+---+---+
/// ```
#[derive(Clone, Copy, Debug)]
pub struct ConfirmedRequest {
    /// Which part of a segmented request this is. `None` if the request is whole.
    pub segment: Option<Segment>,
    /// Whether the client takes a segmented response.
    pub accepts_segments: bool,
    /// How many segments of a response the client takes, as a code, 0 to 7.
    pub max_segments: u8,
    /// The longest APDU that the client takes, as a code, 0 to 15; see
    /// [`max_apdu_len`](ConfirmedRequest::max_apdu_len).
    pub max_apdu: u8,
    /// The invoke id, which the answer repeats.
    pub invoke: u8,
    /// The service choice.
    pub service: u8,
}

impl ConfirmedRequest {
    ghost use Rattle.std.specs.Prelude.{◌≡◌};
    ghost use Rattle.gw_codecs.specs.apdu.Apdu.{max_apdu_len};

    /// The longest APDU that the client takes, in octets (clause 20.1.2.5). The codes from 6 on,
    /// which the standard reserves, count as the longest, which is our own choice.
    pub fn max_apdu_len(self) -> usize
        ensures { result ≡ max_apdu_len self.max_apdu }
    {
        match self.max_apdu {
            0 => 50,
            1 => 128,
            2 => 206,
            3 => 480,
            4 => 1024,
            _ => 1476,
        }
    }
}

/// The header of an APDU, by its type.
#[derive(Clone, Copy, Debug)]
pub enum Header {
    /// A request that is answered (clause 20.1.2).
    ConfirmedRequest(ConfirmedRequest),
    /// A request that isn't answered (clause 20.1.3).
    UnconfirmedRequest {
        /// The service choice.
        service: u8,
    },
    /// Done, and there is nothing more to say (clause 20.1.4).
    SimpleAck {
        /// The invoke id of the request.
        invoke: u8,
        /// The service choice.
        service: u8,
    },
    /// Done, and this is what was asked for (clause 20.1.5).
    ComplexAck {
        /// Which part of a segmented response this is. `None` if it is whole.
        segment: Option<Segment>,
        /// The invoke id of the request.
        invoke: u8,
        /// The service choice.
        service: u8,
    },
    /// Segments have come (clause 20.1.6).
    SegmentAck {
        /// The invoke id of the message.
        invoke: u8,
        /// The number of the last segment that came in order.
        sequence: u8,
        /// How many segments may come before the next acknowledgement.
        window: u8,
    },
    /// The request couldn't be done (clause 20.1.7).
    Error {
        /// The invoke id of the request.
        invoke: u8,
        /// The service choice.
        service: u8,
    },
    /// The request is no request that can be read (clause 20.1.8).
    Reject {
        /// The invoke id of the request.
        invoke: u8,
        /// The reason, see [`RejectReason`](crate::apdu::RejectReason).
        reason: u8,
    },
    /// The transaction is over (clause 20.1.9).
    Abort {
        /// The invoke id of the request.
        invoke: u8,
        /// The reason, see [`AbortReason`](crate::apdu::AbortReason).
        reason: u8,
    },
}

impl Header {
    ghost use Rattle.std.specs.Prelude.{◌≡◌};
    ghost use Rattle.gw_codecs.specs.apdu.Apdu.{type_of, code_of};

    /// The type of the APDU.
    pub fn pdu_type(self) -> PduType
        ensures { result ≡ type_of self }
    {
        match self {
            Header::ConfirmedRequest(_) => PduType::ConfirmedRequest,
            Header::UnconfirmedRequest { .. } => PduType::UnconfirmedRequest,
            Header::SimpleAck { .. } => PduType::SimpleAck,
            Header::ComplexAck { .. } => PduType::ComplexAck,
            Header::SegmentAck { .. } => PduType::SegmentAck,
            Header::Error { .. } => PduType::Error,
            Header::Reject { .. } => PduType::Reject,
            Header::Abort { .. } => PduType::Abort,
        }
    }

    /// The number by which rules name what the APDU asks for, which is ours: the service choice of
    /// a confirmed request, 256 more than that of an unconfirmed one, and of every other type 1024
    /// and the number of the type.
    pub fn service_code(self) -> u16
        ensures { result ≡ code_of self }
    {
        match self {
            Header::ConfirmedRequest(request) => u16::from(request.service),
            Header::UnconfirmedRequest { service } => 256 + u16::from(service),
            other => 1024 + u16::from(other.pdu_type().number()),
        }
    }
}

/// An APDU: its header, and the octets after it, lent.
#[derive(Clone, Copy, Debug)]
pub struct Apdu<'a> {
    /// The header.
    pub header: Header,
    /// The octets after the header: the body of a request, of an answer or of an error.
    pub rest: &'a [u8],
}
