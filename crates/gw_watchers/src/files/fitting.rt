//! Whether a policy can be on trial beside a configuration.

ghost use Rattle.std.specs.Prelude.{◌≡◌, Bool};
ghost use Rattle.std.specs.Cmp.Lexicographic.{pointwise};
ghost use Rattle.gw_watchers.specs.files.Trial.{are_same_ports, is_same_format, is_same_port};

use gw_configuration::Port;
use gw_rules::Format;

/// Whether two formats are the same.
pub fn is_same_format(a: Format, b: Format) -> bool
    ensures { result ≡ is_same_format a b }
{
    match (a, b) {
        (Format::One, Format::One) | (Format::Two, Format::Two) | (Format::Three, Format::Three) =>
            true,
        _ => false,
    }
}

/// Whether two ports have the same network, own address and broadcast address.
fn is_same_port(a: &Port, b: &Port) -> bool
    ensures { result ≡ is_same_port a.now b.now }
{
    a.network == b.network && a.address == b.address && a.broadcast == b.broadcast
}

/// Whether these are the same ports in the same order.
pub(crate) fn are_same_ports(some: &[Port], others: &[Port]) -> bool
    ensures { result ≡ are_same_ports some.now others.now }
{
    if some.len() != others.len() {
        return false;
    }
    for (place, port) in some.iter().enumerate() {
        if !is_same_port(port, &others[place]) {
            return false;
        }
    }
    true
}
