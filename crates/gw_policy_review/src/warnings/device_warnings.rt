//! Warnings of the device.
ghost use Rattle.gw_addr.specs.Appending.{IsAppended};
ghost use Rattle.gw_policy_review.specs.warnings.Warnings.{device_lines, revision_line};

use gw_addr::{put_decimal, put_octet, put_slice};
use gw_configuration::Device;
use std::alloc::AllocError;

/// The last Protocol_Revision that the device meets: from 14 on each object has Property_List (clause 12.1.1.4.1), and from 17
/// on the device has a Network Port object (clause 12.56).
const LAST_REVISION: u8 = 13;

/// Appends the line of a device that claims a revision which it doesn't meet.
pub(crate) fn put_device(out: &mut Vec<u8>, device: &Device) -> Result<(), AllocError>
    ensures { IsAppended (device_lines device.now) out.old out.new result }
{
    if device.revision <= LAST_REVISION {
        Ok(())
    } else {
        put_revision(out, device.revision)
    }
}

fn put_revision(out: &mut Vec<u8>, revision: u8) -> Result<(), AllocError>
    ensures { IsAppended (revision_line revision) out.old out.new result }
{
    put_slice(out, b"warning: device: revision: ")?;
    put_decimal(out, revision)?;
    put_slice(
        out,
        b" is above 13: each object needs Property_List from 14 on, and the device a Network Port object from 17 on",
    )?;
    put_octet(out, b'\n')
}
