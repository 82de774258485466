//! Texts of addresses and masks. Quotation marks show where a text begins and ends.

use gw_addr::{BipAddr, Mask};
use gw_cases::put_octets;
use std::alloc::Global;
use std::io;
use std::io::Write;

/// The octets of an address, and its text.
pub fn address(alloc: Global, line: &str, out: &mut Vec<u8>) -> io::Result<()> {
    match BipAddr::parse(line.trim_matches('"')) {
        Ok(address) => {
            put_octets(alloc, &address.to_octets(), out)?;
            write!(out, " ")?;
            address.put_text(out)?;
            Ok(())
        },
        Err(_) => write!(out, "no address"),
    }
}

/// The octets of a mask, and its text.
pub fn mask(alloc: Global, line: &str, out: &mut Vec<u8>) -> io::Result<()> {
    match Mask::parse(line.trim_matches('"')) {
        Some(mask) => {
            put_octets(alloc, &mask.octets, out)?;
            write!(out, " ")?;
            mask.put_text(out)?;
            Ok(())
        },
        None => write!(out, "no mask"),
    }
}
