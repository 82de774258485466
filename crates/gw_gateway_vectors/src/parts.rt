//! Cases of the parts of a gateway that need no configuration: addresses, frames, the bodies of services, rules, and the lines of a log.

mod addresses;
mod bodies;
mod counts;
mod denials;
mod frames;
mod logs;
mod named_logs;
mod rules;
pub mod texts;
mod values;

use gw_cases::Case;
use std::alloc::Global;
use std::io;
use std::io::ErrorKind;

/// Appends the answer to a case of one line.
pub fn answer_line(alloc: Global, case: &Case<'_>, out: &mut Vec<u8>) -> io::Result<()> {
    let line = case.text;
    match case.kind() {
        "addresses" => addresses::address(alloc, line, out),
        "masks" => addresses::mask(alloc, line, out),
        "tags" => values::tag(alloc, line, out),
        "values" => values::value(alloc, line, out),
        "lists" => values::list(alloc, line, out),
        "bvll" => frames::bvll(alloc, line, out),
        "npdu" => frames::npdu(alloc, line, out),
        "hops" => frames::hops(alloc, line, out),
        "apdu" => frames::apdu(alloc, line, out),
        "services" => bodies::body(alloc, line, out),
        "audit" => denials::denial(alloc, line, out),
        "read" => logs::line(alloc, line, out),
        "told" => logs::told(alloc, line, out),
        "since" => logs::since(alloc, line, out),
        "last" => logs::last(alloc, line, out),
        "renamed" => named_logs::renamed(alloc, line, out),
        "counts" => counts::counts(alloc, line, out),
        "rules" => rules::rules(alloc, line, out),
        "limits" => rules::limits(alloc, line, out),
        "bounds" => rules::bounds(alloc, line, out),
        "operations" => rules::operation(line, out),
        _ => Err(ErrorKind::InvalidData.into()),
    }
}
