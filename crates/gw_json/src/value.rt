//! A JSON value (RFC 8259), and its line.

ghost use Rattle.std.specs.Prelude.{◌≡◌, ◌++◌, ◌∷◌, [], vec_capacity, IfOk, OnErr, OnOk, Some};
ghost use Rattle.hex.specs.Hex.{encode_upper};
ghost use Rattle.json.specs.Json.{string};
ghost use Rattle.json.specs.Tree.{items_tokens, json_tokens, members_tokens};
ghost use Rattle.gw_json.specs.Ask.{number_value};
ghost use Rattle.gw_json.specs.Document.{IsLinePut, items_of, line_of, object_of};
ghost use Rattle.gw_json.specs.internal.View.{members_view, object_view, value_view, values_view};

use gw_addr::{keep_whole, put_slice};
use json::Writer;
use std::alloc::{AllocError, Global};

/// How many octets of a line there is room for at the start.
const LINE_ROOM: usize = 512;

/// A JSON value. An object keeps its members in order.
#[derive(Drop)]
pub(crate) enum Value {
    /// No value.
    Null,
    /// Whether something is so.
    Boolean(bool),
    /// A natural number.
    Number(u64),
    /// A text of this program.
    Word(&'static str),
    /// Another text.
    Text(String),
    /// Values in order.
    Array(Vec<Value>),
    /// Members in order.
    Object(Vec<Member>),
}

/// A member of an object: its key and its value.
pub(crate) type Member = (&'static str, Value);

/// Appends the line of the object of these members, or nothing.
pub(crate) fn put_object(
    alloc: Global,
    out: &mut Vec<u8>,
    members: Vec<Member>,
) -> Result<(), AllocError>
    ensures { IsLinePut (object_of (members_view members.entry.items)) out.old.items out.new.items result }
{
    let line = object_line(alloc, members)?;
    put_whole(out, &line)
}

/// Appends octets, or nothing.
fn put_whole(out: &mut Vec<u8>, octets: &[u8]) -> Result<(), AllocError>
    ensures ok { OnOk result (out.new.items ≡ out.old.items ++ octets.now) }
    ensures err { OnErr result (out.new.items ≡ out.old.items) }
{
    let len = out.len();
    let put = put_slice(out, octets);
    keep_whole(out, len, put)
}

/// The line of the object of these members.
#[tactic(auto, using(crate::proofs::Views::lent))]
pub(crate) fn object_line(alloc: Global, members: Vec<Member>) -> Result<Vec<u8>, AllocError>
    ensures { IfOk result (λ line. line.items ≡ line_of (object_of (members_view members.entry.items))) }
{
    let mut writer = Writer::new(empty_line(alloc)?);
    writer.begin_object()?;
    write_members(&mut writer, &members)?;
    let mut line = writer.into_inner();
    line.push(b'\n')?;
    Ok(line)
}

/// No octet of a line, with the room that there is for one at the start.
fn empty_line(alloc: Global) -> Result<Vec<u8>, AllocError>
    ensures empty { IfOk result (λ line. line.items ≡ []) }
    ensures room { IfOk result (λ line. vec_capacity line ≡ 512) }
{
    Vec::with_capacity(alloc, LINE_ROOM)
}

#[cycle(write)]
fn write(writer: &mut Writer, value: &Value) -> Result<(), AllocError>
    ensures ok { OnOk result (writer.new.tokens
        ≡ writer.old.tokens ++ json_tokens (value_view value.now)) }
    ensures before { OnOk result (writer.new.before ≡ writer.old.before) }
{
    match value {
        Value::Null => writer.null(),
        Value::Boolean(truth) => writer.boolean(*truth),
        Value::Number(number) => writer.u64(*number),
        Value::Word(word) => writer.string(word),
        Value::Text(text) => writer.string(text.as_str()),
        Value::Array(values) => {
            writer.begin_array()?;
            write_items(writer, values)
        }
        Value::Object(members) => {
            writer.begin_object()?;
            write_members(writer, members)
        }
    }
}

/// Writes the values of an array, and its end.
#[cycle(write)]
fn write_items(writer: &mut Writer, values: &Vec<Value>) -> Result<(), AllocError>
    ensures ok { OnOk result (writer.new.tokens
        ≡ writer.old.tokens ++ items_tokens (items_of (values_view values.now.items))) }
    ensures before { OnOk result (writer.new.before ≡ writer.old.before) }
{
    for value in values {
        write(writer, value)?;
    }
    writer.end_array()
}

/// Writes the members of an object, and its end.
#[cycle(write)]
fn write_members(writer: &mut Writer, members: &Vec<Member>) -> Result<(), AllocError>
    ensures ok { OnOk result (writer.new.tokens
        ≡ writer.old.tokens ++ members_tokens (object_view members.now.items)) }
    ensures before { OnOk result (writer.new.before ≡ writer.old.before) }
{
    for member in members {
        writer.key(member.0)?;
        write(writer, &member.1)?;
    }
    writer.end_object()
}

/// Some members, and then others.
#[tactic(auto, using(crate::proofs::Views::members_append))]
pub(crate) fn joined(members: Vec<Member>, others: Vec<Member>) -> Result<Vec<Member>, AllocError>
    ensures { IfOk result (λ both. members_view both.items
        ≡ members_view members.entry.items ++ members_view others.entry.items) }
{
    let mut joined: Vec<Member> = members;
    let mut left: Vec<Member> = others;
    joined.append(&mut left)?;
    Ok(joined)
}

/// Appends a value to others.
#[tactic(auto, using(crate::proofs::Views::values_append))]
pub(crate) fn push_value(values: &mut Vec<Value>, value: Value) -> Result<(), AllocError>
    ensures { OnOk result (values_view values.new.items
        ≡ values_view values.old.items ++ value_view value ∷ []) }
{
    values.push(value)?;
    Ok(())
}

/// A number, or null if there is none.
pub(crate) fn number_value(number: Option<u64>) -> Value
    ensures { value_view result ≡ number_value number }
{
    match number {
        Some(number) => Value::Number(number),
        None => Value::Null,
    }
}

/// How many there are.
pub(crate) fn count_value(count: usize) -> Value
    ensures { value_view result ≡ number_value (Some count) }
{
    Value::Number(count as u64)
}

/// A text.
pub(crate) fn text_value(alloc: Global, text: &str) -> Result<Value, AllocError>
    ensures { IfOk result (λ value. value_view value ≡ string text.now) }
{
    Ok(Value::Text(String::from_str(alloc, text)?))
}

/// A member that is a text.
pub(crate) fn text_member(
    alloc: Global,
    key: &'static str,
    text: &str,
) -> Result<Vec<Member>, AllocError>
    ensures { IfOk result (λ members. members_view members.items ≡ (key.now, string text.now) ∷ []) }
{
    let text = text_value(alloc, text)?;
    Ok(vec![in alloc; (key, text)]?)
}

/// A member that is octets, as hexadecimal digits.
pub(crate) fn octets_member(
    alloc: Global,
    key: &'static str,
    octets: &[u8],
) -> Result<Vec<Member>, AllocError>
    ensures { IfOk result (λ members. members_view members.items
        ≡ (key.now, string (encode_upper octets.now)) ∷ []) }
{
    let digits = hex::encode_upper(alloc, octets)?;
    text_member(alloc, key, digits.as_str())
}
