//! Reading a message from a datagram (Annex J.2).

ghost use Rattle.std.specs.Prelude.{◌≡◌, ◌↔◌, IfOk, IsOkAnd};
ghost use Rattle.gw_addr.specs.Reading.{Gives};
ghost use Rattle.gw_frames.specs.bvll.Entries.{lent};
ghost use Rattle.gw_frames.specs.bvll.Bvll.{Message, view, IsBvll};
ghost use Rattle.gw_frames.specs.bvll.Reading.{ended, number_body, address_body, entries_body};
ghost use Rattle.gw_frames.specs.bvll.Reading.{body_at, bvll_at};
ghost use Rattle.gw_frames.specs.bvll.Shape.{IsBadMarker, IsBadLength, IsBadFunction, IsBadBody};

use crate::bvll::entries::Entries;
use crate::bvll::entry::Entry;
use crate::bvll::fault::BvllFault;
use crate::bvll::function::Function;
use crate::bvll::message::{BVLC_TYPE, Bvll, ResultCode};
use gw_addr::{BipAddr, address, number};

/// A body that is a number of two octets.
fn whole_number(body: &[u8]) -> Result<u16, BvllFault>
    ensures { Gives (λ x. x) result (number_body body.now) }
{
    let (number, rest) = number(BvllFault::Body, body)?;
    if !rest.is_empty() {
        return Err(BvllFault::Body);
    }
    Ok(number)
}

/// A body that is an address.
fn whole_address(body: &[u8]) -> Result<BipAddr, BvllFault>
    ensures { Gives (λ x. x) result (address_body body.now) }
{
    let (address, rest) = address(BvllFault::Body, body)?;
    if !rest.is_empty() {
        return Err(BvllFault::Body);
    }
    Ok(address)
}

/// A body of table entries.
fn whole_entries<E: Entry>(body: &[u8]) -> Result<Entries<'_, E>, BvllFault>
    ensures { Gives (lent E.entry_of) result (entries_body E.entry_of body.now) }
{
    Entries::from_octets(body).ok_or(BvllFault::Body)
}

/// The message, if it has no body.
fn without_body<'a>(message: Bvll<'a>, body: &[u8]) -> Result<Bvll<'a>, BvllFault>
    ensures { Gives view result (ended (view message.entry) body.now) }
{
    if body.is_empty() {
        Ok(message)
    } else {
        Err(BvllFault::Body)
    }
}

/// The message of a function, from its body.
fn message_of(function: Function, body: &[u8]) -> Result<Bvll<'_>, BvllFault>
    ensures { Gives view result (body_at function body.now) }
{
    match function {
        Function::Result => Ok(Bvll::Result(ResultCode(whole_number(body)?))),
        Function::WriteBdt => Ok(Bvll::WriteBdt(whole_entries(body)?)),
        Function::ReadBdt => without_body(Bvll::ReadBdt, body),
        Function::ReadBdtAck => Ok(Bvll::ReadBdtAck(whole_entries(body)?)),
        Function::Forwarded => {
            let (originator, npdu) = address(BvllFault::Body, body)?;
            Ok(Bvll::Forwarded { originator, npdu })
        }
        Function::Register => {
            let time_to_live = whole_number(body)?;
            Ok(Bvll::Register { time_to_live })
        }
        Function::ReadFdt => without_body(Bvll::ReadFdt, body),
        Function::ReadFdtAck => Ok(Bvll::ReadFdtAck(whole_entries(body)?)),
        Function::Delete => Ok(Bvll::Delete(whole_address(body)?)),
        Function::Distribute => Ok(Bvll::Distribute(body)),
        Function::OriginalUnicast => Ok(Bvll::OriginalUnicast(body)),
        Function::OriginalBroadcast => Ok(Bvll::OriginalBroadcast(body)),
    }
}

/// Writes the message that the octets are, with the faults in their order, into its place. The two functions that most
/// datagrams have are looked for first.
#[inline(never)]
fn message_to<'a>(octets: &'a [u8], frame: &mut Result<Bvll<'a>, BvllFault>)
    ensures { Gives view frame.new (bvll_at octets.now) }
{
    if octets.len() < 4 {
        *frame = Err(BvllFault::Length);
        return;
    }
    let (header, body) = octets.split_at(4);
    if header[0] != BVLC_TYPE {
        *frame = Err(BvllFault::Marker);
        return;
    }
    if u16::from_be_bytes([header[2], header[3]]) as usize != octets.len() {
        *frame = Err(BvllFault::Length);
        return;
    }
    match Function::from_octet(header[1]) {
        Ok(Function::OriginalUnicast) => *frame = Ok(Bvll::OriginalUnicast(body)),
        Ok(Function::OriginalBroadcast) => *frame = Ok(Bvll::OriginalBroadcast(body)),
        Ok(function) => *frame = message_of(function, body),
        Err(fault) => *frame = Err(fault),
    }
}

/// Reads a message from the octets of a datagram, as [`decode`] does, and writes what that answers into its place,
/// where it stays.
#[inline(always)]
pub fn decode_to<'a>(octets: &'a [u8], frame: &mut Result<Bvll<'a>, BvllFault>)
    // What is read has these octets, each of them.
    ensures found { IfOk frame.new (λ message. IsBvll octets.now (view message)) }
    // A message with these octets is read.
    ensures only { (m : Message) → IsBvll octets.now m
        → IsOkAnd frame.new (λ message. view message ≡ m) }

    // Which fault it is, said of the octets.
    ensures marker { (frame.new ≡ Err BvllFault.Marker) ↔ IsBadMarker octets.now }
    ensures size { (frame.new ≡ Err BvllFault.Length) ↔ IsBadLength octets.now }
    ensures function { (frame.new ≡ Err BvllFault.Function) ↔ IsBadFunction octets.now }
    ensures body { (frame.new ≡ Err BvllFault.Body) ↔ IsBadBody octets.now }

    // What is written as a function of the octets.
    ensures exact { Gives view frame.new (bvll_at octets.now) }
{
    message_to(octets, frame)
}

/// Reads a message from the octets of a datagram, all of them (Annex J.2): accepts exactly the
/// valid encodings. It takes no memory: NPDUs and tables are lent from the datagram. The faults are
/// judged in the order `Length` for fewer than four octets, `Marker`, `Length`, `Function`, `Body`.
pub fn decode(octets: &[u8]) -> Result<Bvll<'_>, BvllFault>
    // What is read has these octets, each of them.
    ensures found { IfOk result (λ message. IsBvll octets.now (view message)) }
    // A message with these octets is read.
    ensures only { (m : Message) → IsBvll octets.now m
        → IsOkAnd result (λ message. view message ≡ m) }

    // Which fault it is, said of the octets.
    ensures marker { (result ≡ Err BvllFault.Marker) ↔ IsBadMarker octets.now }
    ensures size { (result ≡ Err BvllFault.Length) ↔ IsBadLength octets.now }
    ensures function { (result ≡ Err BvllFault.Function) ↔ IsBadFunction octets.now }
    ensures body { (result ≡ Err BvllFault.Body) ↔ IsBadBody octets.now }

    // The result as a function of the octets.
    ensures exact { Gives view result (bvll_at octets.now) }
{
    let mut frame = Err(BvllFault::Length);
    decode_to(octets, &mut frame);
    frame
}
