//! What is so of each saved state by its types alone: numbers are in their ranges, tables within their limits.

ghost use Rattle.std.specs.Prelude.{IfSome};
ghost use Rattle.std.specs.List.{AllByRecursion};
ghost use Rattle.gw_addr.specs.Address.{IsAddress};
ghost use Rattle.gw_addr.specs.Entry.{IsBdtEntry};
ghost use Rattle.gw_state_text.specs.Fit.{IsDevice, IsPlace, IsRoute};
ghost use Rattle.gw_codecs.specs.tags.Object.{IsObject, object_view};
ghost use Rattle.gw_state_laws.specs.restoring.internal.Typed.{IsPort, IsSavedObject, IsTyped, IsValue};

use gw_addr::{BdtEntry, BipAddr, NetNum};
use gw_codecs::tags::ObjectId;
use gw_configuration::Text;
use gw_objects::PropertyValue;
use gw_state::{Saved, SavedObject, SavedPort};
use gw_tables::bdt_fdt::KeptDevice;
use gw_tables::routes::Route;

/// What is so of each saved state.
pub(crate) fn typed(saved: &Saved)
    ensures { IsTyped saved.now }
{
    let _counts = saved.counts();
    ports_are(saved.ports());
    routes_are(saved.routes());
    objects_are(saved.objects());
}

// ---- ports

/// An address has six octets.
fn address_is(address: BipAddr)
    ensures { IsAddress address }
{
    let entry = BdtEntry {
        address,
        mask: [0; 4],
    };
    let _octets = entry.to_octets();
}

/// The number of a network is one, and an address has six octets.
fn place_is(network: NetNum, address: BipAddr)
    ensures { IsPlace network address }
{
    let _number = network.get();
    address_is(address);
}

/// Each entry has an address and a mask.
fn entries_are(entries: &[BdtEntry])
    ensures { AllByRecursion IsBdtEntry entries.now }
{
    for entry in entries {
        let _octets = entry.to_octets();
    }
}

/// A device has an address, and times in their ranges.
fn device_is(device: KeptDevice)
    ensures { IsDevice device }
{
    address_is(device.address);
}

/// So has each device.
fn devices_are(devices: &[KeptDevice])
    ensures { AllByRecursion IsDevice devices.now }
{
    for device in devices {
        device_is(*device);
    }
}

/// A port has its place, and tables within their limits.
fn port_is(port: &SavedPort)
    ensures { IsPort port.now }
{
    place_is(port.network, port.address);
    entries_are(port.peers.as_slice());
    entries_are(port.entries.entries());
    devices_are(port.devices.as_slice());
}

/// So has each port.
fn ports_are(ports: &[SavedPort])
    ensures { AllByRecursion IsPort ports.now }
{
    for port in ports {
        port_is(port);
    }
}

// ---- routes

/// A route goes to a network, by a port and an address.
fn route_is(network: NetNum, route: Route)
    ensures { IsRoute (network, route) }
{
    place_is(network, route.next);
}

/// So does a route that was learned.
fn learned_is(learned: &(NetNum, Route))
    ensures { IsRoute learned.now }
{
    let (network, route) = *learned;
    route_is(network, route);
}

/// So does each route.
fn routes_are(routes: &[(NetNum, Route)])
    ensures { AllByRecursion IsRoute routes.now }
{
    for learned in routes {
        learned_is(learned);
    }
}

// ---- objects

/// An identifier fits its bits.
fn identifier_is(object: ObjectId)
    ensures { IsObject (object_view object) }
{}

/// A text has at most 255 octets of UTF-8.
fn text_is(text: &Text)
    ensures { IsValue (PropertyValue.Text text.now) }
{
    let _text = text.as_str();
}

/// A value is in the range of its type.
fn value_is(value: &PropertyValue)
    ensures { IsValue value.now }
{
    match value {
        PropertyValue::Binary(_) => {}
        PropertyValue::State(number) => {
            let _number = *number;
        }
        PropertyValue::Text(text) => text_is(text),
        PropertyValue::Integer(number) => {
            let _number = *number;
        }
        PropertyValue::PositiveInteger(number) => {
            let _number = *number;
        }
    }
}

/// So is that of a slot, if it isn't empty.
fn slot_is(slot: &Option<PropertyValue>)
    ensures { IfSome slot.now IsValue }
{
    if let Some(value) = slot {
        value_is(value);
    }
}

/// So is that of each slot.
fn slots_are(slots: &[Option<PropertyValue>])
    ensures { AllByRecursion (λ slot. IfSome slot IsValue) slots.now }
{
    for slot in slots {
        slot_is(slot);
    }
}

/// An object has its identifier, and values in the ranges of their types.
fn object_is(object: &SavedObject)
    ensures { IsSavedObject object.now }
{
    let slots = object.slots();
    identifier_is(object.object());
    value_is(object.configured());
    value_is(slots.default());
    slots_are(slots.slots());
}

/// So has each object.
fn objects_are(objects: &[SavedObject])
    ensures { AllByRecursion IsSavedObject objects.now }
{
    for object in objects {
        object_is(object);
    }
}
