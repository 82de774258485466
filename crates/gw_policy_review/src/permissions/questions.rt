//! The shapes of the asks of which a line says who may raise them.
ghost use Rattle.std.specs.Prelude.{◌≡◌};
ghost use Rattle.gw_policy_review.specs.permissions.Questions.{any_of, claiming, entering, reading};

use gw_ask_sets::shapes::{Entrance, NETWORK, NOTHING, Origin, Shape, Side, bound, numbers, only};
use gw_rules::{Format, Operation};

/// Properties of an object, by its type and instance.
#[derive(Clone, Copy)]
pub(crate) struct Point {
    /// The number of the object's type (clause 21).
    pub kind: u64,
    /// The object's instance.
    pub instance: u64,
    /// The numbers of the properties (clause 21).
    pub property: Side,
}

/// Any of so many ports.
fn any_of(ports: u64) -> Entrance
    ensures { result ≡ any_of ports }
{
    Entrance {
        port: numbers(1, ports),
        manages: true,
    }
}

/// Asks to enter by the port of this number, which has this network.
pub(crate) fn entering(number: u64, network: u64) -> Shape
    ensures { result ≡ entering number network }
{
    let from = Origin::own(Format::Three, number, network, true);
    bound(&from, Operation::Enter, NOTHING, NOTHING)
}

/// Asks to speak for any network, by any of so many ports.
pub(crate) fn claiming(ports: u64) -> Shape
    ensures { result ≡ claiming ports }
{
    let from = Origin::foreign(Format::Three, &any_of(ports), &NETWORK);
    bound(&from, Operation::Claim, NOTHING, NOTHING)
}

/// Asks to read properties of an object of the device, which has this network, by claims of another
/// network and any of so many ports.
pub(crate) fn reading(ports: u64, device: u64, network: u64, point: Point) -> Shape
    ensures { result ≡ reading ports device network point }
{
    let from = Origin::foreign(Format::Three, &any_of(ports), &only(network));
    Shape {
        object_type: only(point.kind),
        instance: only(point.instance),
        property: point.property,
        ..bound(&from, Operation::Read, numbers(12, 14), only(device))
    }
}
