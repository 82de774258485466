//! The functions of the virtual link layer (Annex J.2), the second octet of each message.

ghost use Rattle.std.specs.Prelude.{◌≡◌};
ghost use Rattle.gw_frames.specs.bvll.Bvll.{octet_of};
ghost use Rattle.gw_frames.specs.bvll.Reading.{function_at};

use crate::bvll::fault::BvllFault;

/// What a message of the virtual link layer is for (Annex J.2).
#[derive(Clone, Copy, Debug)]
pub enum Function {
    /// `00` BVLC-Result.
    Result,
    /// `01` Write-Broadcast-Distribution-Table.
    WriteBdt,
    /// `02` Read-Broadcast-Distribution-Table.
    ReadBdt,
    /// `03` Read-Broadcast-Distribution-Table-Ack.
    ReadBdtAck,
    /// `04` Forwarded-NPDU.
    Forwarded,
    /// `05` Register-Foreign-Device.
    Register,
    /// `06` Read-Foreign-Device-Table.
    ReadFdt,
    /// `07` Read-Foreign-Device-Table-Ack.
    ReadFdtAck,
    /// `08` Delete-Foreign-Device-Table-Entry.
    Delete,
    /// `09` Distribute-Broadcast-To-Network.
    Distribute,
    /// `0A` Original-Unicast-NPDU.
    OriginalUnicast,
    /// `0B` Original-Broadcast-NPDU.
    OriginalBroadcast,
}

impl Function {
    /// The function of a message's second octet. `Function` if it is above `0B`.
    pub(crate) fn from_octet(octet: u8) -> Result<Function, BvllFault>
        ensures { result ≡ function_at octet }
    {
        match octet {
            0x00 => Ok(Function::Result),
            0x01 => Ok(Function::WriteBdt),
            0x02 => Ok(Function::ReadBdt),
            0x03 => Ok(Function::ReadBdtAck),
            0x04 => Ok(Function::Forwarded),
            0x05 => Ok(Function::Register),
            0x06 => Ok(Function::ReadFdt),
            0x07 => Ok(Function::ReadFdtAck),
            0x08 => Ok(Function::Delete),
            0x09 => Ok(Function::Distribute),
            0x0A => Ok(Function::OriginalUnicast),
            0x0B => Ok(Function::OriginalBroadcast),
            _ => Err(BvllFault::Function),
        }
    }

    /// The second octet of a message with this function.
    pub fn octet(self) -> u8
        ensures { result ≡ octet_of self }
    {
        match self {
            Function::Result => 0x00,
            Function::WriteBdt => 0x01,
            Function::ReadBdt => 0x02,
            Function::ReadBdtAck => 0x03,
            Function::Forwarded => 0x04,
            Function::Register => 0x05,
            Function::ReadFdt => 0x06,
            Function::ReadFdtAck => 0x07,
            Function::Delete => 0x08,
            Function::Distribute => 0x09,
            Function::OriginalUnicast => 0x0A,
            Function::OriginalBroadcast => 0x0B,
        }
    }
}
