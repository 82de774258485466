//! Frames of the three layers: what is read of octets, and how it is written where that differs.

use gw_cases::{octets_of, put_octets, put_other};
use gw_codecs::apdu::{Apdu, service_code};
use gw_frames::npdu::{AddressRef, Npdu, Onward, relay_header};
use std::alloc::Global;
use std::io;
use std::io::Write;

/// The message of a frame of the virtual link layer.
pub fn bvll(alloc: Global, line: &str, out: &mut Vec<u8>) -> io::Result<()> {
    let frame = octets_of(alloc, line)?;
    let mut written = Vec::new(alloc);
    match gw_frames::bvll::decode(&frame) {
        Ok(message) => {
            write!(out, "{message:?}")?;
            match gw_frames::bvll::encode(&message, &mut written) {
                Ok(()) => put_other(alloc, &frame, &written, out),
                Err(fault) => write!(out, " as {fault}"),
            }
        },
        Err(fault) => write!(out, "{fault:?}"),
    }
}

/// The message of the network layer.
pub fn npdu(alloc: Global, line: &str, out: &mut Vec<u8>) -> io::Result<()> {
    let frame = octets_of(alloc, line)?;
    let mut written = Vec::new(alloc);
    match gw_frames::npdu::decode(&frame) {
        Ok(npdu) => {
            write!(out, "{npdu:?}")?;
            match gw_frames::npdu::encode(&npdu, &mut written) {
                Ok(()) => put_other(alloc, &frame, &written, out),
                Err(fault) => write!(out, " as {fault}"),
            }
        },
        Err(fault) => write!(out, "{fault:?}"),
    }
}

/// The header of a message for the next hop, whose source is C0A80105BAC0 of network 1 where it names none.
fn hop(
    alloc: Global,
    npdu: &Npdu<'_>,
    keeps_destination: bool,
    out: &mut Vec<u8>,
) -> io::Result<()> {
    let source = AddressRef {
        network: 1,
        mac: &[0xC0, 0xA8, 0x01, 0x05, 0xBA, 0xC0],
    };
    let how = Onward {
        keeps_destination,
        source,
    };
    let mut header = Vec::new(alloc);
    match relay_header(npdu, &how, npdu.payload.octets().len(), &mut header) {
        Ok(()) => put_octets(alloc, &header, out),
        Err(fault) => write!(out, "{fault}"),
    }
}

/// The headers of a message where it is delivered and where it is passed on.
pub fn hops(alloc: Global, line: &str, out: &mut Vec<u8>) -> io::Result<()> {
    match gw_frames::npdu::decode(&octets_of(alloc, line)?) {
        Ok(npdu) => {
            hop(alloc, &npdu, false, out)?;
            write!(out, " ")?;
            hop(alloc, &npdu, true, out)
        },
        Err(fault) => write!(out, "{fault:?}"),
    }
}

/// The header of an APDU and the octets after it, the code of its service and the number of its type.
pub fn apdu(alloc: Global, line: &str, out: &mut Vec<u8>) -> io::Result<()> {
    let octets = octets_of(alloc, line)?;
    match gw_codecs::apdu::decode(&octets) {
        Ok(Apdu { header, rest }) => {
            let kind = header.pdu_type().number();
            let code = service_code(&octets).unwrap_or(0);
            write!(out, "{header:?} {rest:?} {code} type {kind}")
        },
        Err(fault) => write!(out, "{fault:?}"),
    }
}
