//! The objects of a configuration: what their properties read as, and which writes are taken.

use crate::configurations;
use gw_cases::{number, octets_of, put_octets, wanted};
use gw_codecs::tags::ObjectId;
use gw_objects::{AskedWrite, ObjectDb, ObjectType, PropertySet, properties};
use std::alloc::Global;
use std::io;
use std::io::{ErrorKind, Write};

/// How many octets are shown whole.
const SHOWN: usize = 40;

/// The object that a word names, as `5/1`.
fn object_of(word: &str) -> io::Result<ObjectId> {
    let (kind, instance) = wanted(word.split_once('/'))?;
    wanted(ObjectId::new(number(Some(kind))?, number(Some(instance))?))
}

/// The property that a word names and the index, as `87` or `87/16`.
fn property_of(word: &str) -> io::Result<(u32, Option<u32>)> {
    match word.split_once('/') {
        Some((property, index)) => Ok((number(Some(property))?, Some(number(Some(index))?))),
        None => Ok((number(Some(word))?, None)),
    }
}

/// Appends the numbers of the properties of an object.
fn put_set(kind: Option<ObjectType>, set: PropertySet, out: &mut Vec<u8>) -> io::Result<()> {
    for (place, property) in properties(wanted(kind)?, set).iter().enumerate() {
        let space = if place > 0 { " " } else { "" };
        write!(out, "{space}{}", property.number())?;
    }
    Ok(())
}

/// Appends the number of an object's type.
fn put_type(kind: Option<ObjectType>, out: &mut Vec<u8>) -> io::Result<()> {
    match kind {
        Some(kind) => write!(out, "{}", kind.number()),
        None => write!(out, "none"),
    }
}

/// Appends the object of a name.
fn put_named(id: Option<ObjectId>, out: &mut Vec<u8>) -> io::Result<()> {
    match id {
        Some(id) => write!(out, "{}/{}", id.kind, id.instance),
        None => write!(out, "none"),
    }
}

/// Reads a property: its octets, or of many the first and how many there are.
fn read(
    alloc: Global,
    db: &ObjectDb,
    object: &str,
    property: &str,
    out: &mut Vec<u8>,
) -> io::Result<()> {
    let (property, index) = property_of(property)?;
    let mut value = Vec::new(alloc);
    match db.read(object_of(object)?, property, index, &mut value) {
        Ok(()) if value.len() > SHOWN => {
            put_octets(alloc, &value[..6], out)?;
            write!(out, " of {}", value.len())
        },
        Ok(()) => put_octets(alloc, &value, out),
        Err(fault) => write!(out, "{fault}"),
    }
}

/// Writes to the property of an object, at a priority and of these octets.
fn write(
    alloc: Global,
    db: &mut ObjectDb,
    target: (&str, &str),
    command: (&str, &str),
    out: &mut Vec<u8>,
) -> io::Result<()> {
    let object = object_of(target.0)?;
    let (property, index) = property_of(target.1)?;
    let value = octets_of(alloc, command.1)?;
    let Ok(priority @ 1..=16) = command.0.parse::<u8>() else {
        return Err(ErrorKind::InvalidData.into());
    };
    let write = AskedWrite {
        id: object,
        property,
        index,
        priority,
        value: &value,
    };
    match db.check(alloc, &write) {
        Ok(put) => {
            db.put(put);
            write!(out, "ok")
        },
        Err(fault) => write!(out, "{fault}"),
    }
}

/// Finds the object of a name, or gives an object's type or some of its properties.
fn find(db: &ObjectDb, what: &str, of: &str, out: &mut Vec<u8>) -> io::Result<()> {
    if what == "name" {
        return put_named(db.find_name(of.as_bytes()), out);
    }
    let kind = db.find(object_of(of)?);
    match what {
        "type" => put_type(kind, out),
        "all" => put_set(kind, PropertySet::All, out),
        "required" => put_set(kind, PropertySet::Required, out),
        "optional" => put_set(kind, PropertySet::Optional, out),
        _ => Err(ErrorKind::InvalidData.into()),
    }
}

/// One thing that is asked.
fn step(alloc: Global, db: &mut ObjectDb, asked: &str, out: &mut Vec<u8>) -> io::Result<()> {
    let mut words = asked.splitn(4, ' ');
    let first = wanted(words.next())?;
    let second = wanted(words.next())?;
    match (words.next(), words.next()) {
        (Some(priority), Some(value)) => write(alloc, db, (first, second), (priority, value), out),
        _ if first.contains('/') => read(alloc, db, first, second, out),
        _ => find(db, first, second, out),
    }
}

/// Each thing that is asked.
fn put_steps(alloc: Global, db: &mut ObjectDb, line: &str, out: &mut Vec<u8>) -> io::Result<()> {
    for (place, asked) in line.split("; ").enumerate() {
        if place > 0 {
            write!(out, "; ")?;
        }
        step(alloc, db, asked, out)?;
    }
    Ok(())
}

/// The fresh objects of a configuration.
fn make_objects(alloc: Global, config: &str) -> io::Result<ObjectDb> {
    let config = configurations::read(alloc, config)?;
    Ok(ObjectDb::from_config(alloc, &config)?)
}

/// What fresh objects of a configuration answer to the things that a line asks one after the other.
pub fn steps(alloc: Global, config: &str, line: &str, out: &mut Vec<u8>) -> io::Result<()> {
    let mut db = make_objects(alloc, config)?;
    put_steps(alloc, &mut db, line, out)
}
