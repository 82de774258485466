//! Tags, application values and lists: what is read of octets, and the shortest encoding.

use gw_cases::{octets_of, put_octets};
use gw_codecs::tags::{read_list, read_tag, read_value, write_tag, write_value};
use std::alloc::Global;
use std::io;
use std::io::Write;

/// The tag in front of the octets.
pub fn tag(alloc: Global, line: &str, out: &mut Vec<u8>) -> io::Result<()> {
    match read_tag(&octets_of(alloc, line)?) {
        Ok(header) => {
            let tag = header.tag;
            let class = if tag.context {
                "context"
            } else {
                "application"
            };
            write!(out, "number {} {class} {:?}: ", tag.number, tag.kind)?;
            let mut encoding = Vec::new(alloc);
            write_tag(&mut encoding, tag)?;
            put_octets(alloc, &encoding, out)
        },
        Err(fault) => write!(out, "{fault:?}"),
    }
}

/// The value in front of the octets.
pub fn value(alloc: Global, line: &str, out: &mut Vec<u8>) -> io::Result<()> {
    match read_value(&octets_of(alloc, line)?) {
        Ok((value, _)) => {
            write!(out, "{value:?}: ")?;
            let mut encoding = Vec::new(alloc);
            write_value(&mut encoding, value)?;
            put_octets(alloc, &encoding, out)
        },
        Err(fault) => write!(out, "{fault:?}"),
    }
}

/// How many octets come before the closing tag of number 3.
pub fn list(alloc: Global, line: &str, out: &mut Vec<u8>) -> io::Result<()> {
    match read_list(3, &octets_of(alloc, line)?) {
        Some((list, _)) => write!(out, "{} octets", list.len()),
        None => write!(out, "no list"),
    }
}
