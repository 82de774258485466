//! The messages of the virtual link layer (Annex J.2).

ghost use Rattle.std.specs.Prelude.{◌≡◌, option_map};

use crate::bvll::entries::{BdtEntries, FdtEntries};
use crate::bvll::function::Function;
use gw_addr::BipAddr;

/// The first octet of each message: BVLL for BACnet/IP.
pub const BVLC_TYPE: u8 = 0x81;

/// The code of a BVLC-Result (Annex J.2.1). Each number of two octets is one; the named ones are
/// those of the standard.
#[derive(Clone, Copy, Debug)]
pub struct ResultCode(pub u16);

impl ResultCode {
    ghost use Rattle.gw_frames.specs.bvll.Bvll.{refusal};

    /// Successful completion.
    pub const SUCCESS: ResultCode = ResultCode(0x0000);
    /// Write-Broadcast-Distribution-Table NAK.
    pub const WRITE_BDT_NAK: ResultCode = ResultCode(0x0010);
    /// Read-Broadcast-Distribution-Table NAK.
    pub const READ_BDT_NAK: ResultCode = ResultCode(0x0020);
    /// Register-Foreign-Device NAK.
    pub const REGISTER_NAK: ResultCode = ResultCode(0x0030);
    /// Read-Foreign-Device-Table NAK.
    pub const READ_FDT_NAK: ResultCode = ResultCode(0x0040);
    /// Delete-Foreign-Device-Table-Entry NAK.
    pub const DELETE_NAK: ResultCode = ResultCode(0x0050);
    /// Distribute-Broadcast-To-Network NAK.
    pub const DISTRIBUTE_NAK: ResultCode = ResultCode(0x0060);

    /// The code by which what a function asks for is refused (Annex J.2.1), or `None` if it asks
    /// for nothing.
    pub fn refusal(function: Function) -> Option<ResultCode>
        ensures { option_map (λ code. code.0) result ≡ refusal function }
    {
        match function {
            Function::WriteBdt => Some(ResultCode::WRITE_BDT_NAK),
            Function::ReadBdt => Some(ResultCode::READ_BDT_NAK),
            Function::Register => Some(ResultCode::REGISTER_NAK),
            Function::ReadFdt => Some(ResultCode::READ_FDT_NAK),
            Function::Delete => Some(ResultCode::DELETE_NAK),
            Function::Distribute => Some(ResultCode::DISTRIBUTE_NAK),
            _ => None,
        }
    }
}

/// A message of the virtual link layer, by its function. NPDUs and tables are lent from where they
/// lie.
///
/// ```text
/// +----+----------+----+----+------ .. ------+
/// | 81 | function | length  |      body      |
/// +----+----------+----+----+------ .. ------+
/// ```
///
/// The length is that of the whole message.
#[derive(Clone, Copy, Debug)]
pub enum Bvll<'a> {
    /// `00` BVLC-Result: a code of two octets (Annex J.2.1).
    Result(ResultCode),
    /// `01` Write-Broadcast-Distribution-Table: entries of ten octets (Annex J.2.2).
    WriteBdt(BdtEntries<'a>),
    /// `02` Read-Broadcast-Distribution-Table: no body (Annex J.2.3).
    ReadBdt,
    /// `03` Read-Broadcast-Distribution-Table-Ack: entries of ten octets (Annex J.2.4).
    ReadBdtAck(BdtEntries<'a>),
    /// `04` Forwarded-NPDU: six octets of address, then an NPDU (Annex J.2.5).
    Forwarded {
        /// Who sent the message first.
        originator: BipAddr,
        /// The NPDU.
        npdu: &'a [u8],
    },
    /// `05` Register-Foreign-Device: two octets (Annex J.2.6).
    Register {
        /// For how many seconds.
        time_to_live: u16,
    },
    /// `06` Read-Foreign-Device-Table: no body (Annex J.2.7).
    ReadFdt,
    /// `07` Read-Foreign-Device-Table-Ack: entries of ten octets (Annex J.2.8).
    ReadFdtAck(FdtEntries<'a>),
    /// `08` Delete-Foreign-Device-Table-Entry: six octets of address (Annex J.2.9).
    Delete(BipAddr),
    /// `09` Distribute-Broadcast-To-Network: an NPDU (Annex J.2.10).
    Distribute(&'a [u8]),
    /// `0A` Original-Unicast-NPDU: an NPDU (Annex J.2.11).
    OriginalUnicast(&'a [u8]),
    /// `0B` Original-Broadcast-NPDU: an NPDU (Annex J.2.12).
    OriginalBroadcast(&'a [u8]),
}

impl<'a> Bvll<'a> {
    ghost use Rattle.gw_frames.specs.bvll.Bvll.{view, function_of};

    /// The function of the message.
    pub fn function(&self) -> Function
        ensures { result ≡ function_of (view self.now) }
    {
        match self {
            Bvll::Result(_) => Function::Result,
            Bvll::WriteBdt(_) => Function::WriteBdt,
            Bvll::ReadBdt => Function::ReadBdt,
            Bvll::ReadBdtAck(_) => Function::ReadBdtAck,
            Bvll::Forwarded { .. } => Function::Forwarded,
            Bvll::Register { .. } => Function::Register,
            Bvll::ReadFdt => Function::ReadFdt,
            Bvll::ReadFdtAck(_) => Function::ReadFdtAck,
            Bvll::Delete(_) => Function::Delete,
            Bvll::Distribute(_) => Function::Distribute,
            Bvll::OriginalUnicast(_) => Function::OriginalUnicast,
            Bvll::OriginalBroadcast(_) => Function::OriginalBroadcast,
        }
    }
}
