//! Who-Has (clause 16.9).

ghost use Rattle.std.specs.Prelude.{◌≡◌, ◌↔◌, ◌<◌, ◌∷◌, ◌^◌, length, IfOk, IsOkAnd, Err};
ghost use Rattle.gw_addr.specs.Reading.{Gives};
ghost use Rattle.gw_codecs.specs.services.Body.{HasFault};
ghost use Rattle.std.specs.Option.{option_map};
ghost use Rattle.gw_addr.specs.Appending.{IsAppended, IsAppendedWhole};
ghost use Rattle.gw_codecs.specs.services.WhoIs.{limits_view};
ghost use Rattle.gw_codecs.specs.services.WhoHas.{WhoHas as WhoHasFields, who_has_view, who_has_body, IsWhoHas, who_has_at, who_has_encoding, sought_view, sought_at, sought_part, asked_for, NameFits};
ghost use Rattle.gw_codecs.specs.services.Reading.{ended};
ghost use Rattle.gw_codecs.specs.declared.tags.tag.Kind.TheVariants.{Length};
ghost use Rattle.gw_codecs.specs.tags.Tag.{canonical};
ghost use Rattle.gw_codecs.specs.tags.List.{context};
ghost use Rattle.gw_codecs.specs.tags.Context.{in_context};

use crate::services::discovery::{Limits, Sought, WhoHas};
use crate::services::fault::BodyFault;
use crate::services::parameter::{object_maybe, text};
use crate::services::who_is::{limits, put_limits};
use crate::tags::{CharacterString, Kind, Tag, write_context, write_tag};
use gw_addr::{keep_whole, put_octet, put_slice};
use std::alloc::AllocError;

/// A whole request, if nothing follows it.
fn whole<'a>(
    limits: Option<Limits>,
    sought: Sought<'a>,
    octets: &[u8],
) -> Result<WhoHas<'a>, BodyFault>
    ensures { Gives (λ w. who_has_view w) result
        (ended (asked_for (option_map limits_view limits) (sought_view sought.entry))
        octets.now) }
{
    if !octets.is_empty() {
        return Err(BodyFault::TooMany);
    }
    Ok(WhoHas { limits, sought })
}

/// What is sought, and the end.
fn sought<'a>(limits: Option<Limits>, octets: &'a [u8]) -> Result<WhoHas<'a>, BodyFault>
    ensures { Gives (λ w. who_has_view w) result
        (sought_at (option_map limits_view limits) octets.now) }
{
    let (object, rest) = object_maybe(2, octets)?;
    match object {
        Some(object) => whole(limits, Sought::Object(object), rest),
        None => {
            let (name, rest) = text(3, rest)?;
            whole(limits, Sought::Name(name), rest)
        }
    }
}

fn read(octets: &[u8]) -> Result<WhoHas<'_>, BodyFault>
    ensures { Gives (λ w. who_has_view w) result (who_has_at octets.now) }
{
    let (limits, rest) = limits(octets)?;
    sought(limits, rest)
}

/// Reads the body of a Who-Has request, all of it.
///
/// # Errors
///
/// 1 `InvalidTag`, 2 `Missing`, 3 `OutOfRange` and 4 `TooMany`, as [`BodyFault`] says: the first in
/// the order of the octets.
pub fn decode_who_has(octets: &[u8]) -> Result<WhoHas<'_>, BodyFault>
    // What is read is what the octets are.
    ensures found { IfOk result (λ w. IsWhoHas octets.now (who_has_view w)) }
    // What the octets are is read.
    ensures only { (w : WhoHasFields) → IsWhoHas octets.now w
        → IsOkAnd result (λ x. who_has_view x ≡ w) }
    // What is wrong with octets that are no such body.
    ensures fault { (fault : BodyFault) → (result ≡ Err fault)
        ↔ HasFault fault who_has_body octets.now }
    // The answer as a function of the octets.
    ensures exact { Gives (λ w. who_has_view w) result (who_has_at octets.now) }
{
    read(octets)
}

/// Context tag 3, which announces so many octets.
fn put_name_tag(out: &mut Vec<u8>, count: u32) -> Result<(), AllocError>
    ensures { IsAppended (canonical (context 3 (Length count))) out.old out.new result }
{
    let tag = Tag {
        number: 3,
        context: true,
        kind: Kind::Length(count),
    };
    write_tag(out, tag)
}

/// A name, as a character set and octets under context tag 3.
fn put_name(out: &mut Vec<u8>, name: &CharacterString<'_>) -> Result<(), AllocError>
    requires { length (name.now.charset ∷ name.now.octets.now) < 2 ^ 32 }
    ensures { IsAppended (in_context 3 (name.now.charset ∷ name.now.octets.now)) out.old out.new result }
{
    put_name_tag(out, name.octets.len() as u32 + 1)?;
    put_octet(out, name.charset)?;
    put_slice(out, name.octets)
}

/// What is sought.
fn put_sought(out: &mut Vec<u8>, sought: &Sought<'_>) -> Result<(), AllocError>
    requires { NameFits (sought_view sought.now) }
    ensures { IsAppended (sought_part (sought_view sought.now)) out.old out.new result }
{
    match sought {
        Sought::Object(object) => write_context(out, 2, &object.to_octets()),
        Sought::Name(name) => put_name(out, name),
    }
}

fn put(out: &mut Vec<u8>, request: &WhoHas<'_>) -> Result<(), AllocError>
    // A name has fewer than 2 to the power of 32 octets.
    requires { NameFits (sought_view request.now.sought) }
    ensures { IsAppended (who_has_encoding (who_has_view request.now)) out.old out.new result }
{
    put_limits(out, &request.limits)?;
    put_sought(out, &request.sought)
}

/// Appends the body of a Who-Has request, in the fewest octets. The buffer keeps what it held, also after
/// an error.
///
/// # Errors
///
/// 1 Memory, only where the buffer had no room.
pub fn encode_who_has(request: &WhoHas<'_>, out: &mut Vec<u8>) -> Result<(), AllocError>
    // A name has fewer than 2 to the power of 32 octets.
    requires { NameFits (sought_view request.now.sought) }
    ensures { IsAppendedWhole (who_has_encoding (who_has_view request.now)) out.old out.new result }
{
    let len = out.len();
    let written = put(out, request);
    keep_whole(out, len, written)
}
