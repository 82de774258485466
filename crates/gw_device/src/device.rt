//! The device: its objects, and the write to one of them that was granted.

ghost use Rattle.std.specs.Prelude.{◌≡◌, ◌<◌, ◌∷◌, [], List, length, vec_len, IfOk};
ghost use Rattle.gw_objects.specs.declared.value.PropertyValue.{PropertyValue};
ghost use Rattle.gw_objects.specs.History.{IsStateAfter, with_write};
ghost use Rattle.gw_objects.specs.Objects.{database_of, defaults_of};
ghost use Rattle.gw_objects.specs.Write.{Write};

use crate::{Access, Change, Context};
use gw_configuration::Config;
use gw_objects::{Configured, ObjectDb, PropertyValue};
use gw_tables::priority::PriorityArray;
use std::alloc::{AllocError, Global};
use std::marker::Model;

/// The gateway's own device: its Device object and its value objects. Contracts see what is
/// configured of them, and the slots and the default of each value object.
#[derive(Drop)]
pub struct Device {
    objects: ObjectDb,
}

impl Model for Device {
    ghost use Rattle.gw_objects.specs.Objects.{Database};

    ghost Value = { Database };

    ghost view = { λ d. d.objects };
}

impl Device {
    /// The device of a configuration, each value object with its default and no command. The only
    /// fault is want of memory.
    pub fn new(alloc: Global, config: &Config) -> Result<Self, AllocError>
        ensures objects { IfOk result (λ device. device ≡ database_of config.now) }
        ensures stands { IfOk result (λ device.
            IsStateAfter (defaults_of config.now) [] device.states) }
    {
        Ok(Device {
            objects: ObjectDb::from_config(alloc, config)?,
        })
    }

    /// The device of a configuration, each value object with these slots and this default, in the
    /// order of the configuration. The only fault is want of memory.
    pub fn resume(
        alloc: Global,
        config: &Config,
        states: Vec<PriorityArray<PropertyValue>>,
    ) -> Result<Self, AllocError>
        requires { vec_len states ≡ length config.now.objects }
        ensures { IfOk result (λ device. device
            ≡ record { configured = (database_of config.now).configured; states = states.items }) }
    {
        Ok(Device {
            objects: ObjectDb::resume(alloc, config, states)?,
        })
    }

    /// The slots and the default of each value object, in the order of the configuration.
    pub fn states(&self) -> &[PriorityArray<PropertyValue>]
        ensures states { result.now ≡ self.now.states }
        ensures each { length self.now.states ≡ length self.now.configured.objects }
    {
        self.objects.states()
    }

    /// What is configured of the device and its objects.
    pub fn configured(&self) -> &Configured
        ensures { result.now ≡ self.now.configured }
    {
        self.objects.configured()
    }

    /// The objects, for an APDU of which this is known beside its octets.
    pub fn access<'a>(&'a self, context: &'a Context) -> Access<'a>
        ensures objects { result.objects.now ≡ self.now }
        ensures context { result.context.now ≡ context.now }
    {
        Access {
            objects: &self.objects,
            context,
        }
    }

    /// Makes a change that this device granted (clause 19.2). It takes no memory.
    pub fn commit(&mut self, change: Change)
        requires { change.place < length self.old.configured.objects }
        ensures change { self.new ≡ with_write change self.old }
        ensures stands { (starts : List PropertyValue) (history : List Write) →
            IsStateAfter starts history self.old.states →
            IsStateAfter starts (change ∷ history) self.new.states }
    {
        self.objects.put(change.into_put());
    }
}
