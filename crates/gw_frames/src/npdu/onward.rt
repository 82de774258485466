//! What a router changes of a message for the next hop, by clause 6.5.4.

ghost use Rattle.std.specs.Prelude.{◌≡◌, ◌+◌, ◌<◌, ◌≤◌, ◌↔◌, ◌++◌, length, vec_len};
ghost use Rattle.std.specs.Prelude.{OnOk, OnErr, IsErrOf};
ghost use Rattle.std.specs.Vec.{vec_capacity};
ghost use Rattle.gw_frames.specs.npdu.Numbers.{max_len};
ghost use Rattle.gw_frames.specs.npdu.Npdu.{header, view};
ghost use Rattle.gw_frames.specs.npdu.Onward.{onward, onward_view};

use crate::npdu::address::{AddressRef, Destination};
use crate::npdu::fault::EncodeFault;
use crate::npdu::npdu::Npdu;
use crate::npdu::writing::{MAX_LEN, put_header};

/// How a message goes on.
#[derive(Clone, Copy)]
pub struct Onward<'a> {
    /// Whether the destination stays, with one hop less. It is taken away on the destination's own network.
    pub keeps_destination: bool,
    /// The station that the message comes from if it names no source.
    pub source: AddressRef<'a>,
}

/// Appends the header of a message for the next hop, before `n` more octets.
///
/// The header is everything in front of the payload's own octets ([`Payload::octets`](crate::npdu::Payload::octets)), with
/// the type and the vendor of a network layer message. A router writes it and then those octets, so `n` is how
/// many they are. Version, reply expected, priority and the kind of payload stay.
///
/// The faults are those of [`EncodeFault`]: `TooLong` if the header and `n` octets are over 1497 together.
pub fn relay_header(
    npdu: &Npdu<'_>,
    how: &Onward<'_>,
    n: usize,
    out: &mut Vec<u8>,
) -> Result<(), EncodeFault>
    ensures ok { let next = onward (onward_view how.now) (view npdu.now) in
        OnOk result (out.new.items ≡ out.old.items ++ header next) }
    ensures too_long { let next = onward (onward_view how.now) (view npdu.now) in
        IsErrOf result EncodeFault.TooLong ↔ (max_len < length (header next) + n) }
    // Memory only if the buffer had no room for the header.
    ensures memory { let len = length (header (onward (onward_view how.now) (view npdu.now))) in
        IsErrOf result EncodeFault.Memory → vec_capacity out.old < vec_len out.old + len }
    ensures err { OnErr result (out.new.items ≡ out.old.items) }
    ensures capacity { vec_capacity out.old ≤ vec_capacity out.new }
{
    let next = next(npdu, how);
    if n > MAX_LEN - next.header_len() {
        return Err(EncodeFault::TooLong);
    }
    let before = out.len();
    let Ok(()) = put_header(out, &next) else {
        out.truncate(before);
        return Err(EncodeFault::Memory);
    };
    Ok(())
}

/// The fields for the next hop.
pub fn next<'a>(npdu: &Npdu<'a>, how: &Onward<'a>) -> Npdu<'a>
    ensures { view result ≡ onward (onward_view how.now) (view npdu.now) }
{
    let destination = match npdu.destination {
        Some(Destination { network, mac, hops }) if how.keeps_destination => {
            Some(Destination {
                network,
                mac,
                hops: hops.saturating_sub(1),
            })
        }
        _ => None,
    };
    let source = Some(npdu.source.unwrap_or(how.source));
    Npdu {
        destination,
        source,
        ..*npdu
    }
}
