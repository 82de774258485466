//! The bodies of services: what is read of octets, and how it is written where that differs.

use gw_cases::{octets_of, put_other, wanted};
use gw_codecs::services::{
    decode_i_am, decode_i_have, decode_multi, decode_read, decode_who_has, decode_who_is,
    decode_write, encode_i_am, encode_multi, encode_read, encode_who_is, encode_write,
};
use std::alloc::Global;
use std::fmt::Debug;
use std::io;
use std::io::{ErrorKind, Write};

/// How many properties a ReadPropertyMultiple names at most.
const MOST_PROPERTIES: usize = 128;

/// A body of ReadProperty.
fn read(alloc: Global, octets: &[u8], out: &mut Vec<u8>) -> io::Result<()> {
    let read = decode_read(octets);
    put(&read, out)?;
    let Ok(read) = read else { return Ok(()) };
    let mut written = Vec::new(alloc);
    encode_read(&read, &mut written)?;
    put_other(alloc, octets, &written, out)
}

/// A body of WriteProperty.
fn write(alloc: Global, octets: &[u8], out: &mut Vec<u8>) -> io::Result<()> {
    let write = decode_write(octets);
    put(&write, out)?;
    let Ok(write) = write else { return Ok(()) };
    let mut written = Vec::new(alloc);
    encode_write(&write, &mut written)?;
    put_other(alloc, octets, &written, out)
}

/// A body of ReadPropertyMultiple.
fn multi(alloc: Global, octets: &[u8], out: &mut Vec<u8>) -> io::Result<()> {
    let multi = decode_multi(alloc, octets);
    put(&multi, out)?;
    match multi {
        Ok(multi) if multi.references.len() <= MOST_PROPERTIES => {
            let mut written = Vec::new(alloc);
            encode_multi(&multi, &mut written)?;
            put_other(alloc, octets, &written, out)
        },
        _ => Ok(()),
    }
}

/// How many properties a body of ReadPropertyMultiple names.
fn count(alloc: Global, octets: &[u8], out: &mut Vec<u8>) -> io::Result<()> {
    match decode_multi(alloc, octets) {
        Ok(multi) => write!(out, "{}", multi.references.len()),
        Err(fault) => write!(out, "{fault:?}"),
    }
}

/// A body of Who-Is.
fn who_is(alloc: Global, octets: &[u8], out: &mut Vec<u8>) -> io::Result<()> {
    let who_is = decode_who_is(octets);
    put(&who_is, out)?;
    let Ok(who_is) = who_is else { return Ok(()) };
    let mut written = Vec::new(alloc);
    encode_who_is(&who_is, &mut written)?;
    put_other(alloc, octets, &written, out)
}

/// A body of I-Am.
fn i_am(alloc: Global, octets: &[u8], out: &mut Vec<u8>) -> io::Result<()> {
    let i_am = decode_i_am(octets);
    put(&i_am, out)?;
    let Ok(i_am) = i_am else { return Ok(()) };
    let mut written = Vec::new(alloc);
    encode_i_am(&i_am, &mut written)?;
    put_other(alloc, octets, &written, out)
}

/// Appends what is read, or the fault.
fn put<T: Debug, F: Debug>(read: &Result<T, F>, out: &mut Vec<u8>) -> io::Result<()> {
    match read {
        Ok(body) => write!(out, "{body:?}"),
        Err(fault) => write!(out, "{fault:?}"),
    }
}

/// A body, by the name of its service.
fn put_body(alloc: Global, service: &str, octets: &[u8], out: &mut Vec<u8>) -> io::Result<()> {
    match service {
        "read" => read(alloc, octets, out),
        "write" => write(alloc, octets, out),
        "multi" => multi(alloc, octets, out),
        "count" => count(alloc, octets, out),
        "who-is" => who_is(alloc, octets, out),
        "who-has" => put(&decode_who_has(octets), out),
        "i-am" => i_am(alloc, octets, out),
        "i-have" => put(&decode_i_have(octets), out),
        _ => Err(ErrorKind::InvalidData.into()),
    }
}

/// The name of a service and a body.
pub fn body(alloc: Global, line: &str, out: &mut Vec<u8>) -> io::Result<()> {
    let (service, digits) = wanted(line.split_once(' '))?;
    put_body(alloc, service, &octets_of(alloc, digits)?, out)
}
