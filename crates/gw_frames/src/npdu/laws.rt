//! Laws of the definitions that the contracts cite. The functions change nothing and answer nothing: their contracts
//! are the laws.

ghost use Rattle.std.specs.Prelude.{◌≡◌, ◌<◌, ◌^◌, ◌++◌, ◌↔◌, ℕ, List, length, Ok, Err, IfSome};
ghost use Rattle.std.specs.Prelude.{IsSomeAnd, option_map};
ghost use Rattle.gw_addr.specs.Reading.{AreOctets};
ghost use Rattle.gw_frames.specs.npdu.Numbers.{max_len, every_network, first_vendor_kind};
ghost use Rattle.gw_frames.specs.npdu.Numbers.{protocol_version};
ghost use Rattle.gw_frames.specs.npdu.Npdu.{Fields, IsNpdu, IsValid, IsShort, IsBadVersion, IsBadAddress};
ghost use Rattle.gw_frames.specs.npdu.Npdu.{IsBadDestination, IsBadSource, FitsAddress, FitsPayload};
ghost use Rattle.gw_frames.specs.npdu.Npdu.{encoding, header, payload_octets};
ghost use Rattle.gw_frames.specs.npdu.Npdu.{view, destination_view, address_view, payload_view};
ghost use Rattle.gw_frames.specs.npdu.Onward.{onward, onward_view};
ghost use Rattle.gw_frames.specs.npdu.Reading.{npdu_at};

use crate::npdu::address::{AddressRef, Destination};
use crate::npdu::fault::NpduFault;
use crate::npdu::message::NetMessage;
use crate::npdu::npdu::{Npdu, Payload};
use crate::npdu::onward::{Onward, next};
use crate::npdu::writing::MAX_LEN;

/// The numbers that others may take from the code are those of the standard.
pub fn numbers()
    ensures max_len { MAX_LEN ≡ max_len }
    ensures every_network { Destination.EVERY_NETWORK ≡ every_network }
    ensures first_vendor_kind { NetMessage.FIRST_VENDOR_KIND ≡ first_vendor_kind }
{}

/// What `npdu_at` computes of octets is what the relations say of them: the message that they are, and each fault
/// exactly if its own condition holds.
pub fn reading()
    ensures found { (octets : List ℕ) (f : Fields) → AreOctets octets →
        (npdu_at octets ≡ Ok f) ↔ IsNpdu octets f }
    ensures short { (octets : List ℕ) → AreOctets octets →
        (npdu_at octets ≡ Err NpduFault.Short) ↔ IsShort octets }
    ensures version { (octets : List ℕ) → AreOctets octets →
        (npdu_at octets ≡ Err NpduFault.Version) ↔ IsBadVersion octets }
    ensures address { (octets : List ℕ) → AreOctets octets →
        (npdu_at octets ≡ Err NpduFault.Address) ↔ IsBadAddress octets }
{}

/// What `encode` writes, `decode` reads to the same fields: the encoding of valid fields is read as them.
pub fn read_again()
    ensures { (f : Fields) → IsValid f → npdu_at (encoding f) ≡ Ok f }
{}

/// Octets are one message at most.
pub fn one_message()
    ensures { (octets : List ℕ) (f g : Fields) → IsNpdu octets f → IsNpdu octets g → f ≡ g }
{}

/// Each value of the type can be sent: its fields are valid, so what `encode` writes of it is read again.
pub fn valid(npdu: &Npdu<'_>)
    ensures { IsValid (view npdu.now) }
{
    destination_valid(&npdu.destination);
    source_valid(&npdu.source);
    payload_valid(&npdu.payload);
}

/// What a router sends on is read as the fields for the next hop: the header of `relay_header`, and the payload's own
/// octets after it.
pub fn read_at_next_hop(npdu: &Npdu<'_>, how: &Onward<'_>)
    ensures { let next = onward (onward_view how.now) (view npdu.now) in
        npdu_at (header next ++ payload_octets (view npdu.now).payload) ≡ Ok next }
{
    let next = next(npdu, how);
    valid(&next);
}

fn destination_valid(destination: &Option<Destination<'_>>)
    ensures fits { IfSome (option_map destination_view destination.now)
        (λ d. FitsAddress d.address × (d.hops < 2 ^ 8)) }
    ensures good { ¬ IsSomeAnd (option_map destination_view destination.now) IsBadDestination }
{
    if let Some(destination) = destination {
        let _network = destination.network;
        let _hops = destination.hops;
    }
}

fn source_valid(source: &Option<AddressRef<'_>>)
    ensures fits { IfSome (option_map address_view source.now) FitsAddress }
    ensures good { ¬ IsSomeAnd (option_map address_view source.now) IsBadSource }
{
    if let Some(source) = source {
        let _network = source.network;
    }
}

fn payload_valid(payload: &Payload<'_>)
    ensures { FitsPayload (payload_view payload.now) }
{
    if let Payload::Message(message) = payload {
        let _kind = message.kind;
        if let Some(vendor) = message.vendor {
            let _vendor = vendor;
        }
    }
}
