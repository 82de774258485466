//! Lines on the device and the objects of two configurations.
ghost use Rattle.std.specs.Prelude.{◌≡◌, ◌++◌, ◌≤◌, codes, decimal, length, IfOk, List, ℕ, OnOk};
ghost use Rattle.std.specs.Fmt.{signed_decimal};
ghost use Rattle.std.specs.Option.{option_map};
ghost use Rattle.gw_script.specs.Order.{in_order};
ghost use Rattle.gw_policy_review.specs.comparison.Details.{bit, changed_object, integer_lines, device_lines, identity_lines};
ghost use Rattle.gw_policy_review.specs.comparison.Details.{is_same_object, kind_text, maker_lines, object_change, object_gone};
ghost use Rattle.gw_policy_review.specs.comparison.Details.{object_head, object_words, state_line, states_lines, text_change, value_lines};
ghost use Rattle.gw_policy_review.specs.comparison.Details.{version_lines, words_change};

use crate::comparison::listing::{Thing, put_number_change, put_text_change, put_words_change};
use gw_addr::{put_slice, put_text_number};
use gw_codecs::names::object_type_name;
use gw_configuration::{Device, MultiState, Object, ObjectValue, Text};
use std::alloc::{AllocError, Global};

/// What a line on the device begins with.
const DEVICE: &[u8] = b"device: ";

// ---- the device

/// Appends what of the device is now otherwise.
pub(crate) fn put_device(out: &mut Vec<u8>, now: &Device, was: &Device) -> Result<(), AllocError>
    ensures { OnOk result (out.new.items ≡ out.old.items ++ device_lines now.now was.now) }
{
    put_identity(out, now, was)?;
    put_maker(out, now, was)?;
    put_versions(out, now, was)?;
    put_text_change(
        out,
        DEVICE,
        b"description ",
        &now.description,
        &was.description,
    )
}

fn put_identity(out: &mut Vec<u8>, now: &Device, was: &Device) -> Result<(), AllocError>
    ensures { OnOk result (out.new.items ≡ out.old.items ++ identity_lines now.now was.now) }
{
    let (network, other) = (u64::from(now.network.get()), u64::from(was.network.get()));
    put_number_change(out, DEVICE, b"network ", network, other)?;
    let (instance, other) = (u64::from(now.instance.get()), u64::from(was.instance.get()));
    put_number_change(out, DEVICE, b"instance ", instance, other)?;
    put_text_change(out, DEVICE, b"name ", &now.name, &was.name)
}

fn put_maker(out: &mut Vec<u8>, now: &Device, was: &Device) -> Result<(), AllocError>
    ensures { OnOk result (out.new.items ≡ out.old.items ++ maker_lines now.now was.now) }
{
    let (vendor, other) = (u64::from(now.vendor), u64::from(was.vendor));
    put_number_change(out, DEVICE, b"vendor ", vendor, other)?;
    put_text_change(
        out,
        DEVICE,
        b"vendor_name ",
        &now.vendor_name,
        &was.vendor_name,
    )?;
    put_text_change(out, DEVICE, b"model ", &now.model, &was.model)
}

fn put_versions(out: &mut Vec<u8>, now: &Device, was: &Device) -> Result<(), AllocError>
    ensures { OnOk result (out.new.items ≡ out.old.items ++ version_lines now.now was.now) }
{
    put_text_change(out, DEVICE, b"firmware ", &now.firmware, &was.firmware)?;
    put_text_change(out, DEVICE, b"software ", &now.software, &was.software)?;
    let (revision, other) = (u64::from(now.revision), u64::from(was.revision));
    put_number_change(out, DEVICE, b"revision ", revision, other)?;
    let (database, other) = (u64::from(now.database), u64::from(was.database));
    put_number_change(out, DEVICE, b"database ", database, other)
}

// ---- objects

/// The name of an object's type.
fn kind_name(value: &ObjectValue) -> &'static str
    ensures { result.now ≡ kind_text value.now }
{
    match object_type_name(value.type_number()) {
        Some(name) => name,
        None => "",
    }
}

/// Appends an object by its type and instance.
fn put_words(out: &mut Vec<u8>, object: &Object) -> Result<(), AllocError>
    ensures { OnOk result (out.new.items ≡ out.old.items ++ object_words object.now) }
{
    out.extend_from_slice(b"object ")?;
    out.extend_from_slice(kind_name(&object.value).as_bytes())?;
    put_text_number(out, " ", object.instance.get())
}

/// What a line on an object begins with.
fn object_head(alloc: Global, object: &Object) -> Result<Vec<u8>, AllocError>
    ensures { IfOk result (λ head. head.items ≡ object_head object.now) }
{
    let mut head = Vec::new(alloc);
    put_words(&mut head, object)?;
    head.extend_from_slice(b": ")?;
    Ok(head)
}

impl Thing for Object {
    ghost use Rattle.gw_policy_review.specs.comparison.Details.{is_same_object, object_change, object_gone};

    ghost is_for = { is_same_object };

    ghost change = { λ head. object_change };

    ghost gone = { λ head. object_gone };

    fn is_for(&self, other: &Self) -> bool {
        self.value.type_number() == other.value.type_number()
            && self.instance.get() == other.instance.get()
    }

    fn put_change(
        &self,
        head: &[u8],
        was: Option<&Self>,
        out: &mut Vec<u8>,
    ) -> Result<(), AllocError> {
        let _ = head;
        match was {
            Some(was) => put_changed(out, &object_head(*out.allocator(), self)?, self, was),
            None => put_new(out, self),
        }
    }

    fn put_gone(&self, head: &[u8], out: &mut Vec<u8>) -> Result<(), AllocError> {
        let _ = head;
        put_words(out, self)?;
        put_slice(out, b" is gone\n")
    }
}

fn put_new(out: &mut Vec<u8>, object: &Object) -> Result<(), AllocError>
    ensures { OnOk result (out.new.items ≡ out.old.items ++ (object_words object.now ++ codes " is new\n")) }
{
    put_words(out, object)?;
    put_slice(out, b" is new\n")
}

fn put_changed(out: &mut Vec<u8>, head: &[u8], now: &Object, was: &Object) -> Result<(), AllocError>
    ensures { OnOk result (out.new.items ≡ out.old.items ++ changed_object head.now now.now was.now) }
{
    put_text_change(out, head, b"name ", &now.name, &was.name)?;
    put_text_change(
        out,
        head,
        b"description ",
        &now.description,
        &was.description,
    )?;
    put_value(out, head, &now.value, &was.value)
}

/// Appends what of a value is now otherwise.
fn put_value(
    out: &mut Vec<u8>,
    head: &[u8],
    now: &ObjectValue,
    was: &ObjectValue,
) -> Result<(), AllocError>
    ensures { OnOk result (out.new.items ≡ out.old.items ++ value_lines head.now now.now was.now) }
{
    match (now, was) {
        (
            ObjectValue::BinaryValue {
                default,
                active,
                inactive,
            },
            ObjectValue::BinaryValue {
                default: other,
                active: on,
                inactive: off,
            },
        ) => {
            put_number_change(out, head, b"default ", bit(*default), bit(*other))?;
            put_text_change(out, head, b"active ", active, on)?;
            put_text_change(out, head, b"inactive ", inactive, off)
        }
        (ObjectValue::MultiStateValue(states), ObjectValue::MultiStateValue(others)) => {
            put_states(out, head, states, others)
        }
        (
            ObjectValue::CharacterStringValue { default },
            ObjectValue::CharacterStringValue { default: other },
        ) => put_text_change(out, head, b"default ", default, other),
        (
            ObjectValue::IntegerValue { default, units },
            ObjectValue::IntegerValue {
                default: other,
                units: others,
            },
        ) => put_integer(out, head, default, other, (*units, *others)),
        (
            ObjectValue::PositiveIntegerValue { default, units },
            ObjectValue::PositiveIntegerValue {
                default: other,
                units: others,
            },
        ) => {
            put_number_change(
                out,
                head,
                b"default ",
                u64::from(*default),
                u64::from(*other),
            )?;
            put_number_change(out, head, b"units ", u64::from(*units), u64::from(*others))
        }
        _ => Ok(()),
    }
}

fn bit(active: bool) -> u64
    ensures { result ≡ bit active }
{
    if active { 1 } else { 0 }
}

/// Appends what of an Integer Value is now otherwise: its default, and its units as they are and were.
fn put_integer(
    out: &mut Vec<u8>,
    head: &[u8],
    now: &i32,
    was: &i32,
    units: (u16, u16),
) -> Result<(), AllocError>
    ensures { OnOk result (out.new.items ≡ out.old.items ++ integer_lines head.now now.now was.now units.0 units.1) }
{
    put_default(out, head, now, was)?;
    put_number_change(out, head, b"units ", u64::from(units.0), u64::from(units.1))
}

fn put_default(out: &mut Vec<u8>, head: &[u8], now: &i32, was: &i32) -> Result<(), AllocError>
    ensures { OnOk result (out.new.items ≡
        out.old.items ++ words_change head.now (codes "default ") (signed_decimal now.now) (signed_decimal was.now)) }
{
    let alloc = *out.allocator();
    let (now, was) = (now.to_string(alloc)?, was.to_string(alloc)?);
    put_words_change(out, head, b"default ", now.as_bytes(), was.as_bytes())
}

// ---- the states of a Multi-state Value

fn put_states(
    out: &mut Vec<u8>,
    head: &[u8],
    now: &MultiState,
    was: &MultiState,
) -> Result<(), AllocError>
    ensures { OnOk result (out.new.items ≡ out.old.items ++ states_lines head.now now.now was.now) }
{
    let (default, other) = (u64::from(now.default()), u64::from(was.default()));
    put_number_change(out, head, b"default ", default, other)?;
    let (count, other) = (now.states().len() as u64, was.states().len() as u64);
    put_number_change(out, head, b"number of states ", count, other)?;
    put_each_state(out, head, now.states(), was.states())
}

fn put_each_state(
    out: &mut Vec<u8>,
    head: &[u8],
    now: &[Text],
    was: &[Text],
) -> Result<(), AllocError>
    requires { length now.now ≤ 64 }
    ensures { OnOk result (out.new.items ≡ out.old.items ++ in_order (state_line head.now was.now) 1 now.now) }
{
    for place in 0..now.len() {
        put_state(out, head, was, place + 1, &now[place])?;
    }
    Ok(())
}

fn put_state(
    out: &mut Vec<u8>,
    head: &[u8],
    was: &[Text],
    number: usize,
    text: &Text,
) -> Result<(), AllocError>
    requires { number ≤ 64 }
    ensures { OnOk result (out.new.items ≡ out.old.items ++ state_line head.now was.now number text.now) }
{
    match was.get(number.saturating_sub(1)) {
        Some(old) => put_state_change(out, head, number, text, old),
        None => Ok(()),
    }
}

fn put_state_change(
    out: &mut Vec<u8>,
    head: &[u8],
    number: usize,
    text: &Text,
    old: &Text,
) -> Result<(), AllocError>
    ensures { OnOk result (out.new.items ≡ out.old.items
        ++ text_change head.now (codes "state " ++ (decimal number ++ codes " ")) text.now old.now) }
{
    let mut words = Vec::new(*out.allocator());
    put_text_number(&mut words, "state ", number)?;
    words.push(b' ')?;
    put_text_change(out, head, &words, text, old)
}
