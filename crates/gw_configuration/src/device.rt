//! The gateway's own device.

use crate::{Instance, Text};
use gw_addr::NetNum;

/// What the gateway's own device says of itself in its Device object (clause 12.11), and where it
/// is: the one station of a network of its own.
pub struct Device {
    /// The number of its network.
    pub network: NetNum,
    /// The instance of the Device object.
    pub instance: Instance,
    /// Object_Name, which isn't empty.
    pub name: Text,
    /// Vendor_Identifier.
    pub vendor: u16,
    /// Vendor_Name.
    pub vendor_name: Text,
    /// Model_Name.
    pub model: Text,
    /// Firmware_Revision.
    pub firmware: Text,
    /// Application_Software_Version.
    pub software: Text,
    /// Protocol_Revision.
    pub revision: u8,
    /// Database_Revision.
    pub database: u32,
    /// Description, which may be empty.
    pub description: Text,
}

// By hand: a derived one is proved part by part wherever one is dropped (docs/GATE.md).
impl Drop for Device {
    fn drop(self) {
        let Device {
            network: _,
            instance: _,
            name: _,
            vendor: _,
            vendor_name: _,
            model: _,
            firmware: _,
            software: _,
            revision: _,
            database: _,
            description: _,
        } = self;
    }
}
