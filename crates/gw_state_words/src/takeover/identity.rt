//! Which ports and which objects are the same.
ghost use Rattle.std.specs.Prelude.{◌≡◌};
ghost use Rattle.std.specs.List.{list_any};
ghost use Rattle.gw_state.specs.Carried.{is_object, is_port};
ghost use Rattle.gw_state_words.specs.takeover.Findings.{absence_of, is_same_object, is_same_port, object_name, object_absence};
ghost use Rattle.gw_state_words.specs.takeover.Findings.{port_absence, port_name};
ghost use Rattle.gw_codecs.specs.tags.Object.{object_view};

use crate::takeover::{Absence, ObjectName, PortName};
use gw_addr::{BipAddr, NetNum};
use gw_codecs::tags::ObjectId;
use gw_configuration::{Object, Port};
use gw_state::{SavedObject, SavedPort, is_object, is_port};

impl PortName {
    /// The port of this network and this own address.
    pub(crate) fn new(network: NetNum, address: BipAddr) -> Self
        ensures { result ≡ port_name network address }
    {
        PortName {
            network: network.get(),
            address,
        }
    }
}

impl ObjectName {
    /// The object of this identifier.
    pub(crate) fn new(id: ObjectId) -> Self
        ensures { result ≡ object_name (object_view id) }
    {
        ObjectName {
            kind: id.kind,
            instance: id.instance,
        }
    }
}

/// Why nothing is taken over, or none if something is.
fn absence_of(configured: bool, repeated: bool) -> Option<Absence>
    ensures { result ≡ absence_of configured repeated }
{
    if !configured {
        return Some(Absence::NotConfigured);
    }
    if repeated {
        return Some(Absence::Twice);
    }
    None
}

// ---- ports

fn is_same_port(a: &SavedPort, b: &SavedPort) -> bool
    ensures { result ≡ is_same_port a.now b.now }
{
    a.network == b.network && a.address == b.address
}

fn is_port_configured(ports: &[Port], saved: &SavedPort) -> bool
    ensures { result ≡ list_any (λ p. is_port p saved.now) ports.now }
{
    ports.iter().any(|port| is_port(port, saved))
}

fn is_port_repeated(before: &[SavedPort], saved: &SavedPort) -> bool
    ensures { result ≡ list_any (is_same_port saved.now) before.now }
{
    before.iter().any(|other| is_same_port(saved, other))
}

/// Why nothing is taken over of a port, which has these before it in the state.
pub(crate) fn port_absence(
    ports: &[Port],
    before: &[SavedPort],
    saved: &SavedPort,
) -> Option<Absence>
    ensures { result ≡ port_absence ports.now before.now saved.now }
{
    absence_of(
        is_port_configured(ports, saved),
        is_port_repeated(before, saved),
    )
}

// ---- objects

fn is_same_object(a: &SavedObject, b: &SavedObject) -> bool
    ensures { result ≡ is_same_object a.now b.now }
{
    a.object() == b.object()
}

fn is_object_configured(objects: &[Object], saved: &SavedObject) -> bool
    ensures { result ≡ list_any (λ object. is_object object saved.now) objects.now }
{
    objects.iter().any(|object| is_object(object, saved))
}

fn is_object_repeated(before: &[SavedObject], saved: &SavedObject) -> bool
    ensures { result ≡ list_any (is_same_object saved.now) before.now }
{
    before.iter().any(|other| is_same_object(saved, other))
}

/// Why nothing is taken over of an object, which has these before it in the state.
pub(crate) fn object_absence(
    objects: &[Object],
    before: &[SavedObject],
    saved: &SavedObject,
) -> Option<Absence>
    ensures { result ≡ object_absence objects.now before.now saved.now }
{
    absence_of(
        is_object_configured(objects, saved),
        is_object_repeated(before, saved),
    )
}
