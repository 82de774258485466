//! What was saved and isn't configured.
ghost use Rattle.std.specs.Prelude.{◌≡◌, ◌++◌, count_by, is_some, OnOk};
ghost use Rattle.gw_state_words.specs.takeover.Findings.{is_written, lost_object, lost_objects, lost_port, lost_ports};

use crate::takeover::identity::{object_absence, port_absence};
use crate::takeover::ports::sizes_of;
use crate::takeover::{ObjectName, PortName, TakeoverFinding};
use gw_configuration::{Object, Port};
use gw_objects::PropertyValue;
use gw_state::{SavedObject, SavedPort};
use std::alloc::AllocError;

/// Adds what is found of the saved ports of which nothing is taken over, in order.
pub(crate) fn add_lost_ports(
    found: &mut Vec<TakeoverFinding>,
    ports: &[Port],
    saved: &[SavedPort],
) -> Result<(), AllocError>
    ensures { OnOk result (found.new.items ≡
        found.old.items ++ lost_ports ports.now saved.now 0 saved.now) }
{
    for (place, one) in saved.iter().enumerate() {
        add_lost_port(found, ports, &saved[..place], one)?;
    }
    Ok(())
}

/// Adds what is found of a saved port, which has these before it, if nothing of it is taken over.
fn add_lost_port(
    found: &mut Vec<TakeoverFinding>,
    ports: &[Port],
    before: &[SavedPort],
    saved: &SavedPort,
) -> Result<(), AllocError>
    ensures { OnOk result (found.new.items ≡
        found.old.items ++ lost_port ports.now before.now saved.now) }
{
    if let Some(absence) = port_absence(ports, before, saved) {
        found.push(TakeoverFinding::LostPort {
            port: PortName::new(saved.network, saved.address),
            sizes: sizes_of(saved),
            absence,
        })?;
    }
    Ok(())
}

/// Adds what is found of the saved objects of which nothing is taken over, in order.
pub(crate) fn add_lost_objects(
    found: &mut Vec<TakeoverFinding>,
    objects: &[Object],
    saved: &[SavedObject],
) -> Result<(), AllocError>
    ensures { OnOk result (found.new.items ≡
        found.old.items ++ lost_objects objects.now saved.now 0 saved.now) }
{
    for (place, one) in saved.iter().enumerate() {
        add_lost_object(found, objects, &saved[..place], one)?;
    }
    Ok(())
}

/// Adds what is found of a saved object, which has these before it, if nothing of it is taken over.
fn add_lost_object(
    found: &mut Vec<TakeoverFinding>,
    objects: &[Object],
    before: &[SavedObject],
    saved: &SavedObject,
) -> Result<(), AllocError>
    ensures { OnOk result (found.new.items ≡
        found.old.items ++ lost_object objects.now before.now saved.now) }
{
    if let Some(absence) = object_absence(objects, before, saved) {
        found.push(TakeoverFinding::LostObject {
            object: ObjectName::new(saved.object()),
            slots: filled(saved.slots().slots()),
            default: is_written(saved),
            absence,
        })?;
    }
    Ok(())
}

/// How many slots aren't empty.
fn filled(slots: &[Option<PropertyValue>]) -> usize
    ensures { result ≡ count_by is_some slots.now }
{
    slots.iter().filter(|slot| slot.is_some()).count()
}

/// Whether the default was written, as it isn't the one that was configured.
pub(crate) fn is_written(saved: &SavedObject) -> bool
    ensures { result ≡ is_written saved.now }
{
    !saved.slots().default().is_same(saved.configured())
}
