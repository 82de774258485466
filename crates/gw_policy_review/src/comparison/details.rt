//! The lines of the parts in which two configurations differ.
ghost use Rattle.std.specs.Prelude.{◌≡◌, ◌++◌, [], codes, OnOk};
ghost use Rattle.gw_policy_review.specs.comparison.Details.{device_lines, format_text, names_lines, said, truth};
ghost use Rattle.gw_policy_review.specs.comparison.PartLines.{details, part_lines};

use crate::comparison::listing::{put_said, put_things};
use crate::comparison::object_details::put_device;
use crate::comparison::parts::{Part, PortPart};
use crate::comparison::port_details::{port_head, put_port_part};
use crate::comparison::rule_details::{put_audit_lines, put_note_lines, put_quiet_lines};
use gw_configuration::{Config, Format};
use std::alloc::AllocError;

/// Appends the lines of these parts, in their order: each says what the new configuration has, and what the old one had.
///
/// ```text
/// port 1: 10.8.0.0/24 is no station any more
/// port 1: 10.9.0.0/24 is a station now
/// port 1: broadcast manager 192.168.1.3:47808 in the place of none
/// route to 300: by 192.168.2.21:47808 on port 2, was by 192.168.2.20:47808 on port 2
/// object binary-value 1: default 1, was 0
/// ```
///
/// An `Err` only if a growth of memory was refused; then some of them may follow what the buffer held.
pub fn put_details(
    out: &mut Vec<u8>,
    old: &Config,
    new: &Config,
    differ: &[Part],
) -> Result<(), AllocError>
    ensures { OnOk result (out.new.items ≡ out.old.items ++ details old.now new.now differ.now) }
{
    for part in differ {
        put_part(out, old, new, *part)?;
    }
    Ok(())
}

fn put_part(out: &mut Vec<u8>, old: &Config, new: &Config, part: Part) -> Result<(), AllocError>
    ensures { OnOk result (out.new.items ≡ out.old.items ++ part_lines old.now new.now part) }
{
    match part {
        Part::Format => put_format(out, old.format(), new.format()),
        Part::Announce => put_announce(out, old.announces(), new.announces()),
        Part::Device => put_devices(out, old, new),
        Part::Ports => put_count(out, old, new),
        Part::OfPort(number, part) => put_of_port(out, old, new, number, part),
        Part::Routes => put_things(out, b"", b"the routes are", new.routes(), old.routes()),
        Part::Objects => put_things(out, b"", b"the objects are", new.objects(), old.objects()),
        Part::Audits => put_audit_lines(out, old, new),
        Part::Notes => put_note_lines(out, old, new),
        Part::RuleNames => put_names(out, old, new),
        Part::Quiets => put_quiet_lines(out, new.rules().rules(), old.rules().rules()),
    }
}

fn put_devices(out: &mut Vec<u8>, old: &Config, new: &Config) -> Result<(), AllocError>
    ensures { OnOk result (out.new.items ≡ out.old.items ++ device_lines new.now.device old.now.device) }
{
    put_device(out, new.device(), old.device())
}

fn put_names(out: &mut Vec<u8>, old: &Config, new: &Config) -> Result<(), AllocError>
    ensures { OnOk result (out.new.items ≡ out.old.items ++ names_lines new.now.rules old.now.rules) }
{
    let (now, was) = (new.rules().rules(), old.rules().rules());
    put_things(out, b"", b"the rules are", now, was)
}

fn format_text(format: Format) -> &'static [u8]
    ensures { result.now ≡ format_text format }
{
    match format {
        Format::One => b"1",
        Format::Two => b"2",
        Format::Three => b"3",
    }
}

fn put_format(out: &mut Vec<u8>, old: Format, new: Format) -> Result<(), AllocError>
    ensures { OnOk result (out.new.items ≡ out.old.items
        ++ said [] (codes "format: ") (format_text new) (format_text old)) }
{
    put_said(out, b"", b"format: ", format_text(new), format_text(old))
}

fn truth(b: bool) -> &'static [u8]
    ensures { result.now ≡ truth b }
{
    if b { b"true" } else { b"false" }
}

fn put_announce(out: &mut Vec<u8>, old: bool, new: bool) -> Result<(), AllocError>
    ensures { OnOk result (out.new.items ≡ out.old.items ++ said [] (codes "announce: ") (truth new) (truth old)) }
{
    put_said(out, b"", b"announce: ", truth(new), truth(old))
}

fn put_count(out: &mut Vec<u8>, old: &Config, new: &Config) -> Result<(), AllocError>
    ensures { OnOk result (out.new.items ≡ out.old.items ++ part_lines old.now new.now Part.Ports) }
{
    let alloc = *out.allocator();
    let now = new.ports().len().to_string(alloc)?;
    let was = old.ports().len().to_string(alloc)?;
    put_said(
        out,
        b"",
        b"number of ports: ",
        now.as_bytes(),
        was.as_bytes(),
    )
}

fn put_of_port(
    out: &mut Vec<u8>,
    old: &Config,
    new: &Config,
    number: u8,
    part: PortPart,
) -> Result<(), AllocError>
    ensures { OnOk result (out.new.items ≡ out.old.items ++ part_lines old.now new.now (Part.OfPort number part)) }
{
    let place = usize::from(number).saturating_sub(1);
    match (new.ports().get(place), old.ports().get(place)) {
        (Some(now), Some(was)) => {
            put_port_part(out, &port_head(*out.allocator(), number)?, part, now, was)
        }
        _ => Ok(()),
    }
}
