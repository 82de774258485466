//! From whom objects are hidden, and what reveals them all the same.
ghost use Rattle.std.specs.Prelude.{◌≡◌, ◌++◌, ◌≤◌, length, IfOk, OnOk};
ghost use Rattle.std.specs.List.{flat_map};
ghost use Rattle.gw_script.specs.Order.{in_order};
ghost use Rattle.gw_ask_sets.specs.shapes.Shapes.{some};
ghost use Rattle.gw_policy_review.specs.permissions.Permissions.{AreObjectLines, AreProperties, AreReadings, AreRevealing, IsHiding};
ghost use Rattle.gw_policy_review.specs.permissions.Permissions.{IsListed, IsProperty, IsRead, hidden_line, hidden_words, identifier_words};
ghost use Rattle.gw_policy_review.specs.permissions.Permissions.{is_hidden, list_line, name_words, network_reads, object_list};
ghost use Rattle.gw_policy_review.specs.permissions.Permissions.{object_words, plain_lines, point_of, property_line, property_words};
ghost use Rattle.gw_policy_review.specs.permissions.Permissions.{reads_words};
ghost use Rattle.gw_policy_review.specs.permissions.Texts.{Appends, AreInTurn};

use crate::permissions::passing::{Passage, is_never, search_allowed};
use crate::permissions::questions::{Point, reading};
use gw_addr::put_text_number;
use gw_ask_sets::shapes::{Outcome, Side, only};
use gw_configuration::{Config, Device, Object, Port, put_shown};
use gw_rules::{FieldName, Format, RuleList};
use std::alloc::{AllocError, Global};

/// The number of the Device object's type (clause 21).
const DEVICE: u64 = 8;

/// The number of Object_List (clause 21).
const OBJECT_LIST: u64 = 76;

/// That of Present_Value.
const PRESENT_VALUE: u64 = 85;

/// A property by its number (clause 21), and its name.
#[derive(Clone, Copy)]
struct NamedProperty {
    /// The number.
    number: u64,
    /// The name.
    name: &'static str,
}

const PRIORITY_ARRAY: NamedProperty = NamedProperty {
    number: 87,
    name: "Priority_Array",
};

const RELINQUISH_DEFAULT: NamedProperty = NamedProperty {
    number: 104,
    name: "Relinquish_Default",
};

/// An object of the device by its number, from 1.
#[derive(Clone, Copy)]
struct NumberedObject<'a> {
    /// The number.
    number: usize,
    /// The object.
    object: &'a Object,
}

/// Such an object, and a network whose claims are to read it.
#[derive(Clone, Copy)]
struct Reader<'a> {
    /// The configuration.
    config: &'a Config,
    /// The object.
    at: NumberedObject<'a>,
    /// The network.
    network: u16,
}

/// Appends the lines of the objects in their order. So many steps are left for the searches; says how many are left for
/// others.
pub(crate) fn put_objects(
    alloc: Global,
    out: &mut Vec<u8>,
    config: &Config,
    left: u32,
) -> Result<u32, AllocError>
    ensures { IfOk result (λ rest.
        Appends (AreInTurn (AreObjectLines config.now) 1 config.now.objects left rest) out.old.items out.new.items) }
{
    let objects = config.objects();
    let mut rest = left;
    for place in 0..objects.len() {
        let at = NumberedObject {
            number: place + 1,
            object: &objects[place],
        };
        rest = put_object(alloc, out, config, &at, rest)?;
    }
    Ok(rest)
}

/// Appends the lines of an object, in order of the ports.
fn put_object(
    alloc: Global,
    out: &mut Vec<u8>,
    config: &Config,
    at: &NumberedObject<'_>,
    left: u32,
) -> Result<u32, AllocError>
    ensures { IfOk result (λ rest.
        Appends (AreObjectLines config.now at.now.number at.now.object.now left rest) out.old.items out.new.items) }
{
    let ports = config.ports();
    let mut rest = left;
    for place in 0..ports.len() {
        let reader = Reader {
            config,
            at: *at,
            network: ports[place].network.get(),
        };
        rest = reader.put(alloc, out, rest)?;
    }
    Ok(rest)
}

impl Reader<'_> {
    /// Searches for an ask of the network to read these properties that is allowed, where so many steps are left.
    fn find(&self, alloc: Global, point: Point, left: u32) -> Result<Passage, AllocError>
        ensures { IfOk result (λ passage. IsRead self.now.config.now self.now.network point left passage.left passage.outcome) }
    {
        let device = u64::from(self.config.device().network.get());
        let ports = self.config.ports().len() as u64;
        let shape = reading(ports, device, u64::from(self.network), point);
        search_allowed(alloc, self.config.rules(), &[shape], left)
    }

    /// Appends what is said of the object, where so many steps are left, and says how many are left then.
    fn put(&self, alloc: Global, out: &mut Vec<u8>, left: u32) -> Result<u32, AllocError>
        ensures { IfOk result (λ rest.
            Appends (AreReadings self.now.config.now self.now.at.number self.now.at.object.now self.now.network left rest)
            out.old.items out.new.items) }
    {
        let found = self.find(alloc, point_of(self.at.object, any_property()), left)?;
        if is_never(&found.outcome) {
            self.put_hiding(alloc, out, found.left)
        } else {
            self.put_revealing(alloc, out, found.left)
        }
    }

    /// Appends that it is hidden from the network, and what names it there.
    fn put_hiding(&self, alloc: Global, out: &mut Vec<u8>, left: u32) -> Result<u32, AllocError>
        ensures { IfOk result (λ rest.
            Appends (IsHiding self.now.config.now self.now.at.number self.now.at.object.now self.now.network left rest)
            out.old.items out.new.items) }
    {
        self.at.put_hidden(out, self.network)?;
        out.extend_from_slice(b": from whoever claims to be of it\n")?;
        self.put_list(alloc, out, left)
    }

    /// Appends that the device's Object_List names it to the network, if that is read.
    fn put_list(&self, alloc: Global, out: &mut Vec<u8>, left: u32) -> Result<u32, AllocError>
        ensures { IfOk result (λ rest.
            Appends (IsListed self.now.config.now self.now.at.number self.now.at.object.now self.now.network left rest)
            out.old.items out.new.items) }
    {
        let found = self.find(alloc, object_list(self.config.device()), left)?;
        self.put_list_line(out, &found.outcome)?;
        Ok(found.left)
    }

    fn put_list_line(&self, out: &mut Vec<u8>, found: &Outcome) -> Result<(), AllocError>
        ensures { OnOk result (out.new.items ≡ out.old.items
            ++ list_line self.now.at.number self.now.at.object.now self.now.network found.now) }
    {
        if is_never(found) {
            return Ok(());
        }
        self.put_reads(out, found)?;
        out.extend_from_slice(b"Object_List, which names it\n")
    }

    /// Appends the properties that reveal its Present_Value, if that is hidden from the network.
    fn put_revealing(&self, alloc: Global, out: &mut Vec<u8>, left: u32) -> Result<u32, AllocError>
        ensures { IfOk result (λ rest.
            Appends (AreRevealing self.now.config.now self.now.at.number self.now.at.object.now self.now.network left rest)
            out.old.items out.new.items) }
    {
        let found = self.find(alloc, point_of(self.at.object, only(PRESENT_VALUE)), left)?;
        if is_never(&found.outcome) {
            self.put_properties(alloc, out, found.left)
        } else {
            Ok(found.left)
        }
    }

    fn put_properties(&self, alloc: Global, out: &mut Vec<u8>, left: u32) -> Result<u32, AllocError>
        ensures { IfOk result (λ rest.
            Appends (AreProperties self.now.config.now self.now.at.number self.now.at.object.now self.now.network left rest)
            out.old.items out.new.items) }
    {
        let between = self.put_property(alloc, out, PRIORITY_ARRAY, left)?;
        self.put_property(alloc, out, RELINQUISH_DEFAULT, between)
    }

    /// Appends that this property is read, if it is.
    fn put_property(
        &self,
        alloc: Global,
        out: &mut Vec<u8>,
        property: NamedProperty,
        left: u32,
    ) -> Result<u32, AllocError>
        ensures { IfOk result (λ rest. Appends (IsProperty self.now.config.now self.now.at.number self.now.at.object.now self.now.network
            property.number property.name.now left rest) out.old.items out.new.items) }
    {
        let found = self.find(alloc, point_of(self.at.object, only(property.number)), left)?;
        self.put_property_line(out, property.name, &found.outcome)?;
        Ok(found.left)
    }

    fn put_property_line(
        &self,
        out: &mut Vec<u8>,
        name: &str,
        found: &Outcome,
    ) -> Result<(), AllocError>
        ensures { OnOk result (out.new.items ≡ out.old.items
            ++ property_line self.now.at.number self.now.at.object.now self.now.network name.now found.now) }
    {
        if is_never(found) {
            return Ok(());
        }
        self.put_reads(out, found)?;
        put_property_words(out, name)
    }

    /// Appends that the network reads something, or that it may.
    fn put_reads(&self, out: &mut Vec<u8>, found: &Outcome) -> Result<(), AllocError>
        ensures { OnOk result (out.new.items ≡ out.old.items
            ++ network_reads self.now.at.number self.now.at.object.now self.now.network found.now) }
    {
        self.at.put(out)?;
        put_text_number(out, ": network ", self.network)?;
        put_reads_words(out, found)
    }
}

fn put_reads_words(out: &mut Vec<u8>, found: &Outcome) -> Result<(), AllocError>
    ensures { OnOk result (out.new.items ≡ out.old.items ++ reads_words found.now) }
{
    match found {
        Outcome::Unknown => out.extend_from_slice(b" may read "),
        _ => out.extend_from_slice(b" can read "),
    }
}

fn put_property_words(out: &mut Vec<u8>, name: &str) -> Result<(), AllocError>
    ensures { OnOk result (out.new.items ≡ out.old.items ++ property_words name.now) }
{
    out.extend_from_slice(b"its ")?;
    out.extend_from_slice(name.as_bytes())?;
    out.extend_from_slice(b", though not its Present_Value\n")
}

impl NumberedObject<'_> {
    /// Appends the object by its number, its type and instance, and its name.
    fn put(&self, out: &mut Vec<u8>) -> Result<(), AllocError>
        ensures { OnOk result (out.new.items ≡ out.old.items ++ object_words self.now.number self.now.object.now) }
    {
        self.put_identifier(out)?;
        put_name(out, self.object)
    }

    fn put_identifier(&self, out: &mut Vec<u8>) -> Result<(), AllocError>
        ensures { OnOk result (out.new.items ≡ out.old.items ++ identifier_words self.now.number self.now.object.now) }
    {
        put_text_number(out, "object ", self.number)?;
        put_text_number(out, " (", self.object.value.type_number())?;
        put_text_number(out, ",", self.object.instance.get())?;
        out.extend_from_slice(b") \"")
    }

    /// Appends that it is hidden from the network.
    fn put_hidden(&self, out: &mut Vec<u8>, network: u16) -> Result<(), AllocError>
        ensures { OnOk result (out.new.items ≡ out.old.items ++ hidden_words self.now.number self.now.object.now network) }
    {
        self.put(out)?;
        put_text_number(out, " is hidden from network ", network)
    }
}

fn put_name(out: &mut Vec<u8>, object: &Object) -> Result<(), AllocError>
    ensures { OnOk result (out.new.items ≡ out.old.items ++ name_words object.now) }
{
    put_shown(out, object.name.as_str().as_bytes())?;
    out.extend_from_slice(b"\"")
}

/// Any property.
fn any_property() -> Side
    ensures { result ≡ some FieldName.Property }
{
    Side {
        absent: false,
        range: FieldName::Property.bounds(Format::Three),
        keyed: false,
    }
}

fn point_of(object: &Object, property: Side) -> Point
    ensures { result ≡ point_of object.now property }
{
    Point {
        kind: object.value.type_number(),
        instance: u64::from(object.instance.get()),
        property,
    }
}

/// The Object_List of the device (clause 12.11).
fn object_list(device: &Device) -> Point
    ensures { result ≡ object_list device.now }
{
    Point {
        kind: DEVICE,
        instance: u64::from(device.instance.get()),
        property: only(OBJECT_LIST),
    }
}

/// Whether the policy hides an object from every source of this network.
fn is_hidden(rules: &RuleList, object: &Object, network: u16) -> bool
    ensures { result ≡ is_hidden rules.now object.now network }
{
    let kind = object.value.type_number();
    rules.hides_from_network(u64::from(network), kind, u64::from(object.instance.get()))
}

// ---- formats 1 and 2

/// Appends from which of these ports' networks the objects, at most 256, are hidden.
pub(crate) fn put_plain(
    out: &mut Vec<u8>,
    rules: &RuleList,
    ports: &[Port],
    objects: &[Object],
) -> Result<(), AllocError>
    requires { length objects.now ≤ 256 }
    ensures { OnOk result (out.new.items ≡
        out.old.items ++ in_order (plain_lines rules.now ports.now) 1 objects.now) }
{
    for place in 0..objects.len() {
        let at = NumberedObject {
            number: place + 1,
            object: &objects[place],
        };
        put_plain_object(out, rules, ports, &at)?;
    }
    Ok(())
}

fn put_plain_object(
    out: &mut Vec<u8>,
    rules: &RuleList,
    ports: &[Port],
    at: &NumberedObject<'_>,
) -> Result<(), AllocError>
    ensures { OnOk result
        (out.new.items ≡ out.old.items ++ plain_lines rules.now ports.now at.now.number at.now.object.now) }
{
    for port in ports {
        put_plain_line(out, rules, at, port)?;
    }
    Ok(())
}

fn put_plain_line(
    out: &mut Vec<u8>,
    rules: &RuleList,
    at: &NumberedObject<'_>,
    port: &Port,
) -> Result<(), AllocError>
    ensures { OnOk result
        (out.new.items ≡ out.old.items ++ hidden_line rules.now at.now.number at.now.object.now port.now) }
{
    let network = port.network.get();
    if !is_hidden(rules, at.object, network) {
        return Ok(());
    }
    at.put_hidden(out, network)?;
    out.extend_from_slice(b"\n")
}
