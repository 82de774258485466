//! A message as it is in the octets, before its version and its addresses are judged.

ghost use Rattle.std.specs.Prelude.{◌<◌, ◌^◌, length};

use crate::npdu::npdu::{Payload, Priority};

/// A network and the address of a station there, whatever they are.
#[derive(Clone, Copy)]
pub struct RawAddress<'a> {
    pub mac: &'a [u8],
    pub network: u16,

    pub ghost short: { length mac.now < 2 ^ 8 },
}

/// An address that a message is bound for, and the hop count.
#[derive(Clone, Copy)]
pub struct RawDestination<'a> {
    pub address: RawAddress<'a>,
    pub hops: u8,
}

/// A version, and the fields after it.
#[derive(Clone, Copy)]
pub struct RawNpdu<'a> {
    pub version: u8,
    pub destination: Option<RawDestination<'a>>,
    pub source: Option<RawAddress<'a>>,
    pub reply_expected: bool,
    pub priority: Priority,
    pub payload: Payload<'a>,
}
