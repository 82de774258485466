//! What is configured of what can be written.
ghost use Rattle.std.specs.Prelude.{◌≡◌, ◌≤◌, length, map, IfOk};
ghost use Rattle.gw_addr.specs.declared.TheConstants.{MAX_PORTS};
ghost use Rattle.gw_codecs.specs.tags.Object.{object_view};
ghost use Rattle.gw_state.specs.Saved.{origin_object, origin_of, origin_port, saved_object, saved_objects, saved_port};

use crate::identity::id_of;
use crate::{SavedObject, SavedPort, copying};
use gw_addr::{BipAddr, NetNum};
use gw_codecs::tags::ObjectId;
use gw_configuration::{Config, Object, Peers, Port};
use gw_objects::PropertyValue;
use gw_tables::bdt_fdt::{Bdt, Fdt};
use gw_tables::priority::PriorityArray;
use std::alloc::{AllocError, Global};
use std::marker::Model;

/// A port, and the peers that it is configured with.
pub struct OriginPort {
    /// The number of its network.
    pub network: NetNum,
    /// The gateway's own address on it.
    pub address: BipAddr,
    /// The configured peers.
    pub peers: Peers,
}

// By hand: a derived one is proved part by part wherever one is dropped (docs/GATE.md).
impl Drop for OriginPort {
    fn drop(self) {
        let OriginPort {
            network: _,
            address: _,
            peers: _,
        } = self;
    }
}

/// A value object, and the default that it is configured with. Contracts see its identifier and the
/// default.
pub struct OriginObject {
    object: ObjectId,
    default: PropertyValue,
}

// By hand: a derived one is proved part by part wherever one is dropped (docs/GATE.md).
impl Drop for OriginObject {
    fn drop(self) {
        let OriginObject {
            object: _,
            default: _,
        } = self;
    }
}

impl Model for OriginObject {
    ghost use Rattle.gw_state.specs.Saved.{OriginObject};
    ghost use Rattle.gw_codecs.specs.tags.Object.{object_view};

    ghost Value = { OriginObject };

    ghost view = { λ o. record { object = object_view o.object; default = o.default } };
}

/// What is configured of what can be written: the peers of each port, and the default of each value
/// object, each in the order of the configuration. A gateway is saved with it. Contracts see the two lists.
pub struct Origin {
    ports: Vec<OriginPort>,
    objects: Vec<OriginObject>,
}

// By hand: a derived one is proved part by part wherever one is dropped (docs/GATE.md).
impl Drop for Origin {
    fn drop(self) {
        let Origin {
            ports: _,
            objects: _,
        } = self;
    }
}

impl Model for Origin {
    ghost use Rattle.std.specs.Prelude.{◌≤◌, length};
    ghost use Rattle.gw_addr.specs.declared.TheConstants.{MAX_PORTS};
    ghost use Rattle.gw_state.specs.Saved.{Origin};

    ghost Value = { Origin };

    ghost view = { λ o. record { ports = o.ports.items; objects = o.objects.items } };

    ghost invariant = { λ o. (length o.ports.items ≤ MAX_PORTS) × (length o.objects.items ≤ 256) };
}

impl OriginPort {
    /// The port with the tables that it has now. The only fault is want of memory.
    pub fn save(&self, alloc: Global, bdt: &Bdt, fdt: &Fdt) -> Result<SavedPort, AllocError>
        ensures { IfOk result (λ port. port ≡ saved_port self.now bdt.now fdt.now.rows) }
    {
        Ok(SavedPort {
            network: self.network,
            address: self.address,
            peers: copying::peers(alloc, &self.peers)?,
            entries: bdt.copy(alloc)?,
            devices: fdt.kept(alloc)?,
        })
    }
}

impl OriginObject {
    /// The object with the slots that it has now. The only fault is want of memory.
    fn save(
        &self,
        alloc: Global,
        slots: &PriorityArray<PropertyValue>,
    ) -> Result<SavedObject, AllocError>
        ensures { IfOk result (λ object. object ≡ saved_object self.now slots.now) }
    {
        let configured = self.default.copy(alloc)?;
        let slots = copying::slots(alloc, slots)?;
        Ok(SavedObject::new(self.object, configured, slots))
    }
}

impl Origin {
    /// What is configured so in a configuration. The only fault is want of memory.
    pub fn of(alloc: Global, config: &Config) -> Result<Self, AllocError>
        ensures { IfOk result (λ origin. origin ≡ origin_of config.now) }
    {
        let ports = ports_of(alloc, config.ports())?;
        let objects = objects_of(alloc, config.objects())?;
        Ok(Origin { ports, objects })
    }

    /// The ports in order, at most 8.
    pub fn ports(&self) -> &[OriginPort]
        ensures ports { result.now ≡ self.now.ports }
        ensures most { length self.now.ports ≤ MAX_PORTS }
    {
        self.ports.as_slice()
    }

    /// The value objects with the slots that they have now, which have the same order. The only fault is
    /// want of memory.
    pub fn save_objects(
        &self,
        alloc: Global,
        states: &[PriorityArray<PropertyValue>],
    ) -> Result<Vec<SavedObject>, AllocError>
        ensures objects { IfOk result (λ objects.
            objects.items ≡ saved_objects self.now.objects states.now) }
        ensures most { IfOk result (λ objects. length objects.items ≤ 256) }
    {
        saved_objects(alloc, &self.objects, states)
    }
}

/// The value objects with the slots at their places.
fn saved_objects(
    alloc: Global,
    objects: &[OriginObject],
    states: &[PriorityArray<PropertyValue>],
) -> Result<Vec<SavedObject>, AllocError>
    ensures { IfOk result (λ saved. saved.items ≡ saved_objects objects.now states.now) }
{
    let mut saved = Vec::new(alloc);
    for (place, object) in objects.iter().enumerate() {
        let Some(slots) = states.get(place) else {
            return Ok(saved);
        };
        saved.push(object.save(alloc, slots)?)?;
    }
    Ok(saved)
}

/// The ports with their peers.
fn ports_of(alloc: Global, ports: &[Port]) -> Result<Vec<OriginPort>, AllocError>
    ensures { IfOk result (λ origins. origins.items ≡ map origin_port ports.now) }
{
    let mut origins = Vec::new(alloc);
    for port in ports {
        origins.push(OriginPort {
            network: port.network,
            address: port.address,
            peers: copying::peers(alloc, &port.peers)?,
        })?;
    }
    Ok(origins)
}

/// The value objects with their defaults.
fn objects_of(alloc: Global, objects: &[Object]) -> Result<Vec<OriginObject>, AllocError>
    ensures { IfOk result (λ origins. origins.items ≡ map origin_object objects.now) }
{
    let mut origins = Vec::new(alloc);
    for object in objects {
        origins.push(OriginObject {
            object: id_of(object),
            default: PropertyValue::default_of(alloc, &object.value)?,
        })?;
    }
    Ok(origins)
}
