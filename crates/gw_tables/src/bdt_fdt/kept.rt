//! The foreign devices of a table as they are kept while no gateway runs.
ghost use Rattle.std.specs.Prelude.{◌≡◌, ◌↔◌, ◌&&◌, not, IfOk, IsErrOf, IsFalse, IsOk, IsTrue};
ghost use Rattle.std.specs.List.{list_any, list_all};
ghost use Rattle.gw_tables.specs.bdt_fdt.Kept.{are_few, are_restorable, is_due, is_of_device, repeat_address};

use crate::bdt_fdt::fault::KeptFault;
use crate::bdt_fdt::fdt::{GRACE, MAX_REGISTRATIONS};
use gw_addr::BipAddr;
use std::marker::Model;

/// A registered foreign device as it is kept.
#[derive(Clone, Copy, Debug)]
pub struct KeptDevice {
    /// Its address.
    pub address: BipAddr,
    /// The time to live that it registered with, in seconds.
    pub time_to_live: u16,
    /// How many ticks are to come until it is gone, those of the grace among them.
    pub left: u64,
}

impl KeptDevice {
    /// Whether it has a tick to come, and no more ticks than its time to live and the 30 of grace.
    pub fn is_due(&self) -> bool
        ensures { result ≡ is_due self.now }
    {
        0 < self.left && self.left <= u64::from(self.time_to_live) + GRACE
    }
}

/// Foreign devices that a table can have, in their order: at most 128, of which no two have one
/// address, each with a tick to come and no more ticks than its time to live and the 30 of grace.
/// Contracts see the list of them.
#[derive(Drop)]
pub struct KeptDevices {
    devices: Vec<KeptDevice>,
}

impl Model for KeptDevices {
    ghost use Rattle.std.specs.Prelude.{List, IsTrue};
    ghost use Rattle.gw_tables.specs.declared.bdt_fdt.kept.KeptDevice.{KeptDevice};
    ghost use Rattle.gw_tables.specs.bdt_fdt.Kept.{are_restorable};

    ghost Value = { List KeptDevice };

    ghost view = { λ a. a.devices.items };

    ghost invariant = { λ a. IsTrue (are_restorable a.devices.items) };
}

impl KeptDevices {
    /// These devices, in their order, which it takes over: it wants no memory.
    ///
    /// The faults: `TooMany` if there are more than 128; else `Left` if one has no tick to come, or
    /// more than its time to live and the 30 of grace; else `Twice` if two have one address. Then the
    /// devices are dropped.
    pub fn new(devices: Vec<KeptDevice>) -> Result<Self, KeptFault>
        ensures ok { IfOk result (λ kept. kept ≡ devices.items) }
        ensures accepted { IsOk result ↔ IsTrue (are_restorable devices.items) }
        ensures too_many { IsErrOf result KeptFault.TooMany ↔ IsFalse (are_few devices.items) }
        ensures left { IsErrOf result KeptFault.Left ↔
            IsTrue (are_few devices.items && not (list_all is_due devices.items)) }
        ensures twice { IsErrOf result KeptFault.Twice ↔
            IsTrue (are_few devices.items &&
            (list_all is_due devices.items && repeat_address devices.items)) }
    {
        if devices.len() > MAX_REGISTRATIONS {
            return Err(KeptFault::TooMany);
        }
        if !are_due(&devices) {
            return Err(KeptFault::Left);
        }
        if repeat_address(&devices) {
            return Err(KeptFault::Twice);
        }
        Ok(KeptDevices { devices })
    }

    /// The devices of a table.
    pub(crate) fn of_table(devices: Vec<KeptDevice>) -> Self
        requires { IsTrue (are_restorable devices.items) }
        ensures { result ≡ devices.items }
    {
        KeptDevices { devices }
    }

    /// The devices in their order.
    pub fn as_slice(&self) -> &[KeptDevice]
        ensures devices { result.now ≡ self.now }
        ensures restorable { IsTrue (are_restorable self.now) }
    {
        self.devices.as_slice()
    }
}

/// Whether each device is due.
fn are_due(devices: &[KeptDevice]) -> bool
    ensures { result ≡ list_all is_due devices.now }
{
    devices.iter().all(|device| device.is_due())
}

/// Whether a device has this address.
fn has_device(devices: &[KeptDevice], address: BipAddr) -> bool
    ensures { result ≡ list_any (is_of_device address) devices.now }
{
    devices.iter().any(|device| address == device.address)
}

/// Whether two devices have one address.
fn repeat_address(devices: &[KeptDevice]) -> bool
    ensures { result ≡ repeat_address devices.now }
{
    for place in 0..devices.len() {
        if has_device(&devices[place + 1..], devices[place].address) {
            return true;
        }
    }
    false
}
