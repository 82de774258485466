//! The objects of a device, with their values.
ghost use Rattle.std.specs.Prelude.{◌≡◌, ◌≢◌, ◌<◌, ◌≤◌, List, [], ◌∷◌, length, slice_get};
ghost use Rattle.std.specs.Prelude.{vec_len, Err, option_copied, option_map, IfOk, OnErr};
ghost use Rattle.std.specs.Option.{ok_or};
ghost use Rattle.std.specs.Vec.{vec_capacity};
ghost use Rattle.gw_addr.specs.Reading.{Gives};
ghost use Rattle.gw_tables.specs.priority.Commandable.{IsPriority};
ghost use Rattle.gw_codecs.specs.tags.Object.{object_view};
ghost use Rattle.gw_objects.specs.Objects.{database_of, defaults_of, name_at, named, same, type_at};
ghost use Rattle.gw_objects.specs.Table.{contents_of, object_at, read_of};
ghost use Rattle.gw_objects.specs.Property.{properties, property_of};
ghost use Rattle.gw_objects.specs.History.{IsStateAfter, acted, put_at, with_write};
ghost use Rattle.gw_objects.specs.Write.{CanAct, Decides, Write, write_of, writes_text};
ghost use Rattle.gw_objects.specs.internal.Act.{act_view};
ghost use Rattle.gw_objects.specs.Answer.{Answers, HasRoom};
ghost use Rattle.gw_objects.specs.internal.View.{contents_view, database_with};

use crate::contents::Contents;
use crate::property::{properties, property_of};
use crate::table::{device_line, object_line};
use crate::write::{Act, AskedWrite, Put};
use crate::writing::write_contents;
use crate::{
    Configured, ConfiguredObject, ObjectType, Property, PropertySet, PropertyValue, ReadFault,
    WriteFault, copying,
};
use gw_codecs::tags::ObjectId;
use gw_configuration::{Config, Text};
use gw_tables::priority::PriorityArray;
use std::alloc::{AllocError, Global};
use std::marker::Model;

/// The objects of a device: what is configured of them, and the slots and the default of each value
/// object. Contracts see the two apart.
pub struct ObjectDb {
    configured: Configured,
    states: Vec<PriorityArray<PropertyValue>>,
}

// By hand: a derived one is proved part by part wherever one is dropped (docs/GATE.md).
impl Drop for ObjectDb {
    fn drop(self) {
        let ObjectDb {
            configured: _,
            states: _,
        } = self;
    }
}

impl Model for ObjectDb {
    ghost use Rattle.std.specs.Prelude.{◌≡◌, length};
    ghost use Rattle.gw_objects.specs.Objects.{Database};

    ghost Value = { Database };

    ghost view = { λ d. record { configured = d.configured; states = d.states.items } };

    ghost invariant = { λ d. length d.states.items ≡ length d.configured.objects };
}

impl ObjectDb {
    /// The objects of a configuration, each value object with its default and no command. The only
    /// fault is want of memory.
    pub fn from_config(alloc: Global, config: &Config) -> Result<Self, AllocError>
        ensures objects { IfOk result (λ db. db ≡ database_of config.now) }
        ensures stands { IfOk result (λ db. IsStateAfter (defaults_of config.now) [] db.states) }
    {
        let configured = copying::configured(alloc, config)?;
        let states = copying::states(alloc, config.objects())?;
        Ok(ObjectDb { configured, states })
    }

    /// The objects of a configuration, each value object with these slots and this default, in the
    /// order of the configuration. The only fault is want of memory.
    pub fn resume(
        alloc: Global,
        config: &Config,
        states: Vec<PriorityArray<PropertyValue>>,
    ) -> Result<Self, AllocError>
        requires { vec_len states ≡ length config.now.objects }
        ensures { IfOk result (λ db. db
            ≡ record { configured = (database_of config.now).configured; states = states.items }) }
    {
        let configured = copying::configured(alloc, config)?;
        Ok(ObjectDb { configured, states })
    }

    /// The slots and the default of each value object, in the order of the configuration.
    pub fn states(&self) -> &[PriorityArray<PropertyValue>]
        ensures states { result.now ≡ self.now.states }
        ensures each { length self.now.states ≡ length self.now.configured.objects }
    {
        &self.states
    }

    /// The type of the object, or `None` where there is no such object.
    pub fn find(&self, id: ObjectId) -> Option<ObjectType>
        ensures { result ≡ type_at self.now.configured (object_view id) }
    {
        find(&self.configured, id)
    }

    /// The object of that name, in character set 0, or `None` where there is none.
    pub fn find_name(&self, name: &[u8]) -> Option<ObjectId>
        ensures { option_map (λ id. object_view id) result ≡ named self.now.configured name.now }
    {
        find_name(&self.configured, name)
    }

    /// The name of the object, or `None` where there is no such object.
    pub fn name(&self, id: ObjectId) -> Option<&Text>
        ensures { option_copied result ≡ name_at self.now.configured (object_view id) }
    {
        if same(id, self.configured.device_id()) {
            return Some(&self.configured.device.name);
        }
        let place = self.configured.objects.place_of(id)?;
        Some(&self.configured.objects.as_slice()[place].name)
    }

    /// What is configured of the objects.
    pub fn configured(&self) -> &Configured
        ensures { result.now ≡ self.now.configured }
    {
        &self.configured
    }

    /// The properties that a set has of a type of object, in the order in which they are answered
    /// (clause 15.7.3.1.2). It takes no memory.
    pub fn properties(kind: ObjectType, set: PropertySet) -> &'static [Property]
        ensures { result.now ≡ properties kind set }
    {
        properties(kind, set)
    }

    /// Appends the octets of a property of an object, or of one element of an array, counted from
    /// 1; index 0 is how many elements there are (clause 15.5).
    ///
    /// # Errors
    ///
    /// 1 `UnknownObject`, 2 `UnknownProperty`, 3 `NotArray`, 4 `BadIndex` and 5 `Memory`, as
    /// [`ReadFault`] says. Then the buffer holds what it held. `Memory` comes only where it had no
    /// room for the octets.
    #[tactic(auto, unfolding(crate::specs::Table::read_of))]
    pub fn read(
        &self,
        id: ObjectId,
        property: u32,
        index: Option<u32>,
        out: &mut Vec<u8>,
    ) -> Result<(), ReadFault>
        ensures answer { Answers result (read_of self.now (object_view id) property index)
            out.old.items out.new.items }
        ensures err { OnErr result (out.new.items ≡ out.old.items) }
        ensures room { HasRoom (read_of self.now (object_view id) property index)
            (vec_len out.old) (vec_capacity out.old)
            → result ≢ Err ReadFault.Memory }
        ensures capacity { vec_capacity out.old ≤ vec_capacity out.new }
    {
        let contents = contents(&self.configured, &self.states, id, property)?;
        let len = out.len();
        let written = write_contents(out, &contents, index);
        if written.is_err() {
            out.truncate(len);
        }
        written
    }

    /// What a write of a property does, or its first fault; nothing changes. The octets are those
    /// of the value. The caller sees to it that the priority is 1 to 16; a write that names none
    /// has 16. Whether there is a fault depends on what is configured and on the write alone.
    ///
    /// # Errors
    ///
    /// 1 `UnknownObject`, 2 `UnknownProperty`, 3 `NotWritable`, 4 `NotArray`, 5 `Reserved`, 6
    /// `WrongKind`, 7 `CharacterSet`, 8 `OutOfRange`, 9 `NoSpace` and 10 `Memory`, as
    /// [`WriteFault`] says. `Memory` comes only where no other fault is due and the value is a text.
    pub fn check(&self, alloc: Global, write: &AskedWrite<'_>) -> Result<Put, WriteFault>
        requires { IsPriority write.now.priority }
        ensures write { Decides (λ put. put) writes_text result
            (write_of self.now.configured (object_view write.now.id) write.now.property write.now.index
            write.now.priority write.now.value.now) }
        ensures place { IfOk result (λ put. put.place < length self.now.configured.objects) }
    {
        write.check(alloc, &self.configured)
    }

    /// Makes a write, which `check` of these objects gave (clause 19.2). It takes no memory.
    pub fn put(&mut self, put: Put)
        requires { put.place < length self.old.configured.objects }
        ensures write { self.new ≡ with_write put self.old }
        ensures stands { (starts : List PropertyValue) (history : List Write) →
            IsStateAfter starts history self.old.states →
            IsStateAfter starts (put ∷ history) self.new.states }
    {
        let (place, act) = put.parts();
        change(&mut self.states, place, act);
    }
}

/// Lets the value object at a place act.
fn change(states: &mut Vec<PriorityArray<PropertyValue>>, place: usize, act: Act)
    requires there { place < vec_len states.old }
    requires can { CanAct (act_view act) }
    ensures { states.new.items ≡
        put_at place (option_map (acted (act_view act)) (slice_get states.old.items place))
        states.old.items }
{
    make(&mut states[place], act);
}

/// Changes one slot, or the default.
fn make(slots: &mut PriorityArray<PropertyValue>, act: Act)
    requires { CanAct (act_view act) }
    ensures { slots.new ≡ acted (act_view act) slots.old }
{
    match act {
        Act::Command(priority, value) => {
            let _ = slots.command(priority, value);
        }
        Act::Relinquish(priority) => {
            let _ = slots.relinquish(priority);
        }
        Act::SetDefault(value) => slots.set_default(value),
    }
}

/// Whether two identifiers are one.
pub(crate) fn same(a: ObjectId, b: ObjectId) -> bool
    ensures { result ≡ same (object_view a) (object_view b) }
{
    a.kind == b.kind && a.instance == b.instance
}

fn find(configured: &Configured, id: ObjectId) -> Option<ObjectType>
    ensures { result ≡ type_at configured.now (object_view id) }
{
    if same(id, configured.device_id()) {
        return Some(ObjectType::Device);
    }
    match configured.objects.place_of(id) {
        Some(place) => Some(configured.objects.as_slice()[place].details.object_type()),
        None => None,
    }
}

fn find_name(configured: &Configured, name: &[u8]) -> Option<ObjectId>
    ensures { option_map (λ id. object_view id) result ≡ named configured.now name.now }
{
    if name == configured.device.name.as_str().as_bytes() {
        return Some(configured.device_id());
    }
    match configured.objects.place_named(name) {
        Some(place) => Some(configured.objects.as_slice()[place].id()),
        None => None,
    }
}

/// A value object with its slots.
fn object<'a>(
    configured: &'a Configured,
    states: &'a [PriorityArray<PropertyValue>],
    id: ObjectId,
) -> Result<(&'a ConfiguredObject, &'a PriorityArray<PropertyValue>), ReadFault>
    requires { length states.now ≡ length configured.now.objects }
    ensures { Gives (λ x. (x.0.now, x.1.now)) result
        (object_at (database_with configured.now states.now) (object_view id)) }
{
    match configured.objects.place_of(id) {
        Some(place) => Ok((&configured.objects.as_slice()[place], &states[place])),
        None => Err(ReadFault::UnknownObject),
    }
}

/// The property of that number, where the type has it.
fn known(kind: ObjectType, property: u32) -> Result<Property, ReadFault>
    ensures { Gives (λ p. p) result (ok_or (property_of kind property) ReadFault.UnknownProperty) }
{
    match property_of(kind, property) {
        Some(property) => Ok(property),
        None => Err(ReadFault::UnknownProperty),
    }
}

/// What a property of an object holds.
fn contents<'a>(
    configured: &'a Configured,
    states: &'a [PriorityArray<PropertyValue>],
    id: ObjectId,
    property: u32,
) -> Result<Contents<'a>, ReadFault>
    requires { length states.now ≡ length configured.now.objects }
    ensures { Gives (λ x. contents_view x) result
        (contents_of (database_with configured.now states.now) (object_view id) property) }
{
    if same(id, configured.device_id()) {
        let property = known(ObjectType::Device, property)?;
        return Ok(device_line(configured, property));
    }
    let (object, slots) = object(configured, states, id)?;
    let property = known(object.details.object_type(), property)?;
    Ok(object_line(object, slots, property))
}
