//! The shapes of a configuration's asks. `gw_verdicts::laws::shapes` says that every ask that the
//! gateway raises lies in one of them.
ghost use Rattle.std.specs.Prelude.{◌≡◌, ◌≤◌, ◌++◌, [], ◌∷◌, IfOk, OnOk, length};
ghost use Rattle.std.specs.List.{flat_map, list_all};
ghost use Rattle.std.specs.Option.{option_to_list};
ghost use Rattle.gw_ask_sets.specs.shapes.Shapes.{address_in, aimed, any_entrance, bound, broadcast_shapes, cast_shapes, claim_shapes, enter_shapes};
ghost use Rattle.gw_ask_sets.specs.shapes.Shapes.{entrances, entrances_from, foreign, foreign_shapes, frame_shapes, gaps};
ghost use Rattle.gw_ask_sets.specs.shapes.Shapes.{gaps_between, is_manager, message_shapes, named, near_shapes, network};
ghost use Rattle.gw_ask_sets.specs.shapes.Shapes.{only, own, passed_to, shapes_by};
ghost use Rattle.gw_ask_sets.specs.shapes.Shapes.{own_shapes, passed_reads, passed_shapes, passed_writes, perhaps};
ghost use Rattle.gw_ask_sets.specs.shapes.Shapes.{plain, request_shapes, shapes, shapes_beyond, shapes_from, shapes_within};
ghost use Rattle.gw_ask_sets.specs.shapes.Shapes.{some, source_in, split, station_in, table_shapes};

use crate::shapes::piece::{NO_RANGE, above, below, numbers};
use crate::shapes::{Shape, Side};
use gw_configuration::{Config, Port};
use gw_rules::{FieldName, Fields, Format, Operation, Range};
use std::alloc::{AllocError, Global};

/// Whence asks come: by which ports, from which networks, and who sends them.
#[derive(Clone, Copy)]
pub struct Origin {
    /// The ports, by their numbers from 1.
    pub port: Side,
    /// The source networks.
    pub network: Side,
    /// The keys of the sources: absent, if one has none.
    pub key: Side,
    /// The senders, whom asks name in format 3 alone.
    pub sender: Side,
    /// Whether the ports are the broadcast managers of their subnets.
    pub manages: bool,
}

/// Ports by which other networks reach the gateway.
#[derive(Clone, Copy)]
pub struct Entrance {
    /// The ports, by their numbers from 1.
    pub port: Side,
    /// Whether they are the broadcast managers of their subnets.
    pub manages: bool,
}

/// An absent field.
pub const NOTHING: Side = Side {
    absent: true,
    range: NO_RANGE,
    keyed: false,
};

/// The key of an address, which has six octets (Annex J.1.2).
const ADDRESS: Side = Side {
    absent: false,
    range: Range {
        low: 0,
        high: (1 << 48) - 1,
    },
    keyed: false,
};

/// The key of a station of any length, absent where it has none.
const ANY_KEY: Side = Side {
    absent: true,
    range: Range {
        low: 0,
        high: (8 << 56) - 1,
    },
    keyed: true,
};

/// A network (clause 6).
pub const NETWORK: Side = Side {
    absent: false,
    range: Range {
        low: 1,
        high: 65534,
    },
    keyed: false,
};

/// A network, or all of them.
const NETWORKS: Side = Side {
    absent: true,
    range: Range {
        low: 1,
        high: 65534,
    },
    keyed: false,
};

/// A request or a network layer message, or an APDU that can't be read.
const REQUEST_OR_MESSAGE: Side = Side {
    absent: true,
    range: Range { low: 0, high: 767 },
    keyed: false,
};

/// An APDU that answers, by its type (clause 20.1).
const ANSWER: Side = Side {
    absent: false,
    range: Range {
        low: 1026,
        high: 1031,
    },
    keyed: false,
};

/// A number that the field can have, as rules of format 3 name it; the field may not be absent.
fn some(field: FieldName) -> Side
    ensures { result ≡ some field }
{
    Side {
        absent: false,
        range: field.bounds(Format::Three),
        keyed: false,
    }
}

/// Such a number, or an absent field.
fn perhaps(field: FieldName) -> Side
    ensures { result ≡ perhaps field }
{
    Side {
        absent: true,
        range: field.bounds(Format::Three),
        keyed: false,
    }
}

/// The one number; the field may not be absent.
pub fn only(number: u64) -> Side
    ensures { result ≡ only number }
{
    numbers(number, number)
}

/// An address that asks name in format 3 alone.
fn address_in(format: Format) -> Side
    ensures { result ≡ address_in format }
{
    if format.names_stations() {
        ADDRESS
    } else {
        NOTHING
    }
}

/// The source of another network: in format 3 a station of any length, in the others one of six octets has a key.
fn source_in(format: Format) -> Side
    ensures { result ≡ source_in format }
{
    if format.names_stations() {
        ANY_KEY
    } else {
        Side {
            absent: true,
            ..ADDRESS
        }
    }
}

/// The station that a message may name, in format 3 alone.
fn station_in(format: Format) -> Side
    ensures { result ≡ station_in format }
{
    if format.names_stations() {
        ANY_KEY
    } else {
        NOTHING
    }
}

impl Origin {
    /// A station of the network of a port, of this number.
    pub fn own(format: Format, number: u64, network: u64, manages: bool) -> Self
        ensures { result ≡ own format number network manages }
    {
        Origin {
            port: only(number),
            network: only(network),
            key: ADDRESS,
            sender: address_in(format),
            manages,
        }
    }

    /// A station of another network, by such ports.
    pub fn foreign(format: Format, by: &Entrance, networks: &Side) -> Self
        ensures { result ≡ foreign format by.now networks.now }
    {
        Origin {
            port: by.port,
            network: *networks,
            key: source_in(format),
            sender: address_in(format),
            manages: by.manages,
        }
    }
}

/// Asks of no network, no object and no station.
fn plain(from: &Origin, operation: Operation, service: Side) -> Shape
    ensures { result ≡ plain from.now operation service }
{
    Fields {
        operation: only(operation.number()),
        port: from.port,
        source_network: from.network,
        source_key: from.key,
        destination_network: NOTHING,
        service,
        object_type: NOTHING,
        instance: NOTHING,
        property: NOTHING,
        priority: NOTHING,
        sender: from.sender,
        station: NOTHING,
    }
}

/// Asks to a network.
pub fn bound(from: &Origin, operation: Operation, service: Side, destination: Side) -> Shape
    ensures { result ≡ bound from.now operation service destination }
{
    Fields {
        destination_network: destination,
        ..plain(from, operation, service)
    }
}

/// Asks for a property of an object there.
fn named(
    from: &Origin,
    operation: Operation,
    service: Side,
    destination: Side,
    priority: Side,
) -> Shape
    ensures { result ≡ named from.now operation service destination priority }
{
    Fields {
        object_type: some(FieldName::ObjectType),
        instance: some(FieldName::Instance),
        property: some(FieldName::Property),
        priority,
        ..bound(from, operation, service, destination)
    }
}

/// These asks, of messages that may name one station.
pub fn aimed(format: Format, shape: &Shape) -> Shape
    ensures { result ≡ aimed format shape.now }
{
    Fields {
        station: station_in(format),
        ..*shape
    }
}

/// Frames that read or change a table of a broadcast manager (Annex J.2); one that deletes names a station.
fn frame_shapes(format: Format, from: &Origin) -> [Shape; 5]
    ensures { result ≡ frame_shapes format from.now }
{
    [
        plain(from, Operation::WriteTable, only(769)),
        plain(from, Operation::ReadTable, only(770)),
        plain(from, Operation::Register, only(773)),
        plain(from, Operation::ReadTable, only(774)),
        Fields {
            station: address_in(format),
            ..plain(from, Operation::Delete, only(776))
        },
    ]
}

/// Messages that name no source, so they come from the port's own network: the networks of a router, and the
/// question for the number of the network.
fn near_shapes(from: &Origin) -> [Shape; 2]
    ensures { result ≡ near_shapes from.now }
{
    [
        bound(from, Operation::Learn, only(513), NETWORK),
        bound(from, Operation::Network, only(530), NOTHING),
    ]
}

/// Broadcasts that a broadcast manager distributes.
fn broadcast_shapes(format: Format, from: &Origin) -> [Shape; 2]
    ensures { result ≡ broadcast_shapes format from.now }
{
    let anywhere = perhaps(FieldName::DestinationNetwork);
    [
        aimed(
            format,
            &bound(from, Operation::Cast, REQUEST_OR_MESSAGE, anywhere),
        ),
        aimed(format, &bound(from, Operation::Cast, ANSWER, anywhere)),
    ]
}

/// What a message raises beside that: routing, the question for routers, and requests to the device on this
/// network, of which lists are of Object_Name, and of the device's Object_Identifier.
fn message_shapes(format: Format, device: u64, from: &Origin) -> [Shape; 8]
    ensures { result ≡ message_shapes format device from.now }
{
    let here = only(device);
    [
        aimed(
            format,
            &bound(from, Operation::Route, REQUEST_OR_MESSAGE, NETWORK),
        ),
        aimed(format, &bound(from, Operation::Route, ANSWER, NETWORK)),
        bound(from, Operation::Network, only(512), NETWORKS),
        named(from, Operation::Read, only(12), here, NOTHING),
        named(from, Operation::Read, only(14), here, NOTHING),
        named(
            from,
            Operation::Write,
            only(15),
            here,
            some(FieldName::Priority),
        ),
        Fields {
            property: only(77),
            ..named(from, Operation::List, only(263), here, NOTHING)
        },
        Fields {
            object_type: only(8),
            property: only(75),
            ..named(from, Operation::List, only(264), here, NOTHING)
        },
    ]
}

/// Reads by this service that are passed on to such a destination: of what isn't seen, and of a property.
fn passed_reads(format: Format, service: u64, destination: Side, from: &Origin) -> [Shape; 2]
    ensures { result ≡ passed_reads format service destination from.now }
{
    let service = only(service);
    [
        aimed(format, &bound(from, Operation::Read, service, destination)),
        aimed(
            format,
            &named(from, Operation::Read, service, destination, NOTHING),
        ),
    ]
}

/// Writes that are passed on to such a destination.
fn passed_writes(format: Format, destination: Side, from: &Origin) -> [Shape; 2]
    ensures { result ≡ passed_writes format destination from.now }
{
    let (service, priority) = (only(15), some(FieldName::Priority));
    [
        aimed(format, &bound(from, Operation::Write, service, destination)),
        aimed(
            format,
            &named(from, Operation::Write, service, destination, priority),
        ),
    ]
}

/// Appends the requests that are passed on to such a destination, by what they name.
fn push_passed(
    out: &mut Vec<Shape>,
    format: Format,
    destination: Side,
    from: &Origin,
) -> Result<(), AllocError>
    ensures { OnOk result (out.new.items ≡ out.old.items ++ passed_shapes format destination from.now) }
{
    out.extend_from_slice(&passed_reads(format, 12, destination, from))?;
    out.extend_from_slice(&passed_reads(format, 14, destination, from))?;
    out.extend_from_slice(&passed_writes(format, destination, from))
}

/// Where requests from there go that are judged by what they name, in format 3: in a broadcast that is distributed
/// anywhere, and else to a network.
fn passed_to(from: &Origin) -> Side
    ensures { result ≡ passed_to from.now }
{
    if from.manages {
        perhaps(FieldName::DestinationNetwork)
    } else {
        NETWORK
    }
}

/// Appends the shapes of requests that are judged by what they name: in format 1 none that are passed
/// on, in format 2 those that are routed, in format 3 those in broadcasts too.
fn push_requests(out: &mut Vec<Shape>, format: Format, from: &Origin) -> Result<(), AllocError>
    ensures { OnOk result (out.new.items ≡ out.old.items ++ request_shapes format from.now) }
{
    match format {
        Format::One => Ok(()),
        Format::Two => push_passed(out, Format::Two, NETWORK, from),
        Format::Three => push_passed(out, Format::Three, passed_to(from), from),
    }
}

/// Appends the shapes of broadcasts that are distributed, if the ports are broadcast managers.
fn push_cast(out: &mut Vec<Shape>, format: Format, from: &Origin) -> Result<(), AllocError>
    ensures { OnOk result (out.new.items ≡ out.old.items ++ cast_shapes format from.now) }
{
    if !from.manages {
        return Ok(());
    }
    out.extend_from_slice(&broadcast_shapes(format, from))
}

/// Appends the shapes of frames that read or change a table, if the ports are broadcast managers.
fn push_table(out: &mut Vec<Shape>, format: Format, from: &Origin) -> Result<(), AllocError>
    ensures { OnOk result (out.new.items ≡ out.old.items ++ table_shapes format from.now) }
{
    if !from.manages {
        return Ok(());
    }
    out.extend_from_slice(&frame_shapes(format, from))
}

/// Appends the shapes of what messages from there raise.
fn push_from(
    out: &mut Vec<Shape>,
    format: Format,
    device: u64,
    from: &Origin,
) -> Result<(), AllocError>
    ensures { OnOk result (out.new.items ≡ out.old.items ++ shapes_from format device from.now) }
{
    push_cast(out, format, from)?;
    out.extend_from_slice(&message_shapes(format, device, from))?;
    push_requests(out, format, from)
}

/// Appends the shape of a station that enters, in format 3.
fn push_enter(out: &mut Vec<Shape>, format: Format, from: &Origin) -> Result<(), AllocError>
    ensures { OnOk result (out.new.items ≡ out.old.items ++ enter_shapes format from.now) }
{
    if !format.names_stations() {
        return Ok(());
    }
    out.push(plain(from, Operation::Enter, NOTHING))?;
    Ok(())
}

/// Appends the shape of a station that speaks for another network, in format 3.
fn push_claim(out: &mut Vec<Shape>, format: Format, from: &Origin) -> Result<(), AllocError>
    ensures { OnOk result (out.new.items ≡ out.old.items ++ claim_shapes format from.now) }
{
    if !format.names_stations() {
        return Ok(());
    }
    out.push(plain(from, Operation::Claim, NOTHING))?;
    Ok(())
}

/// Appends the shapes of what comes from a port's own network.
fn push_within(
    out: &mut Vec<Shape>,
    format: Format,
    device: u64,
    from: &Origin,
) -> Result<(), AllocError>
    ensures { OnOk result (out.new.items ≡ out.old.items ++ shapes_within format device from.now) }
{
    push_table(out, format, from)?;
    push_enter(out, format, from)?;
    out.extend_from_slice(&near_shapes(from))?;
    push_from(out, format, device, from)
}

/// Appends the shapes of what comes from another network.
fn push_beyond(
    out: &mut Vec<Shape>,
    format: Format,
    device: u64,
    from: &Origin,
) -> Result<(), AllocError>
    ensures { OnOk result (out.new.items ≡ out.old.items ++ shapes_beyond format device from.now) }
{
    push_claim(out, format, from)?;
    push_from(out, format, device, from)
}

/// Whether a port is the broadcast manager of its subnet: it has no other one beside it.
pub fn is_manager(port: &Port) -> bool
    ensures { result ≡ is_manager port.now }
{
    port.bbmd.is_none()
}

/// Appends the shapes of what comes from each port's own network.
fn push_own(
    out: &mut Vec<Shape>,
    format: Format,
    device: u64,
    ports: &[Port],
) -> Result<(), AllocError>
    requires { length ports.now ≤ 8 }
    ensures { OnOk result (out.new.items ≡ out.old.items ++ own_shapes format device 1 ports.now) }
{
    for (place, port) in ports.iter().enumerate() {
        let network = u64::from(port.network.get());
        let from = Origin::own(format, place as u64 + 1, network, is_manager(port));
        push_within(out, format, device, &from)?;
    }
    Ok(())
}

/// Appends a side, if there is one.
fn push_some(out: &mut Vec<Side>, side: Option<Side>) -> Result<(), AllocError>
    ensures { OnOk result (out.new.items ≡ out.old.items ++ option_to_list side) }
{
    if let Some(side) = side {
        out.push(side)?;
    }
    Ok(())
}

/// Appends the side without a number.
fn push_split(out: &mut Vec<Side>, number: u64, side: &Side) -> Result<(), AllocError>
    ensures { OnOk result (out.new.items ≡ out.old.items ++ split number side.now) }
{
    if !side.range.holds(number) {
        out.push(*side)?;
        return Ok(());
    }
    let hole = only(number);
    push_some(out, below(side, &hole))?;
    push_some(out, above(side, &hole))
}

/// The sides without a number.
fn split_all(alloc: Global, number: u64, sides: &[Side]) -> Result<Vec<Side>, AllocError>
    ensures { IfOk result (λ split_sides. split_sides.items ≡ flat_map (split number) sides.now) }
{
    let mut out = Vec::new(alloc);
    for side in sides {
        push_split(&mut out, number, side)?;
    }
    Ok(out)
}

/// All networks but the ports' and the device's.
fn gaps(alloc: Global, device: u64, ports: &[Port]) -> Result<Vec<Side>, AllocError>
    ensures { IfOk result (λ sides. sides.items ≡ gaps device ports.now) }
{
    let mut sides = split_all(alloc, device, &[NETWORK])?;
    for port in ports {
        sides = split_all(alloc, u64::from(port.network.get()), &sides)?;
    }
    Ok(sides)
}

/// Each port by itself.
fn entrances_apart(alloc: Global, ports: &[Port]) -> Result<Vec<Entrance>, AllocError>
    requires { length ports.now ≤ 8 }
    ensures { IfOk result (λ list. list.items ≡ entrances_from 1 ports.now) }
{
    let mut entrances = Vec::new(alloc);
    for (place, port) in ports.iter().enumerate() {
        entrances.push(Entrance {
            port: only(place as u64 + 1),
            manages: is_manager(port),
        })?;
    }
    Ok(entrances)
}

/// Whether all ports are broadcast managers.
fn are_managers(ports: &[Port]) -> bool
    ensures { result ≡ list_all is_manager ports.now }
{
    ports.iter().all(|port| is_manager(port))
}

/// All ports together.
fn entrances_together(alloc: Global, ports: &[Port]) -> Result<Vec<Entrance>, AllocError>
    ensures { IfOk result (λ list. list.items ≡ any_entrance ports.now ∷ []) }
{
    let any = Entrance {
        port: numbers(1, ports.len() as u64),
        manages: true,
    };
    Ok(vec![in alloc; any]?)
}

/// By which ports other networks reach the gateway: by any, if all are managers, and else by each.
fn entrances(alloc: Global, ports: &[Port]) -> Result<Vec<Entrance>, AllocError>
    requires { length ports.now ≤ 8 }
    ensures { IfOk result (λ list. list.items ≡ entrances ports.now) }
{
    if are_managers(ports) {
        entrances_together(alloc, ports)
    } else {
        entrances_apart(alloc, ports)
    }
}

/// Appends the shapes of what comes from such networks, by each of these entrances.
fn push_by(
    out: &mut Vec<Shape>,
    format: Format,
    device: u64,
    entrances: &[Entrance],
    networks: &Side,
) -> Result<(), AllocError>
    ensures { OnOk result (out.new.items ≡
        out.old.items ++ foreign_shapes format device entrances.now networks.now) }
{
    for by in entrances {
        push_beyond(out, format, device, &Origin::foreign(format, by, networks))?;
    }
    Ok(())
}

/// Appends the shapes of what comes from other networks, by each of these entrances.
fn push_foreign(
    out: &mut Vec<Shape>,
    format: Format,
    device: u64,
    entrances: &[Entrance],
    networks: &[Side],
) -> Result<(), AllocError>
    ensures { OnOk result (out.new.items ≡
        out.old.items ++ flat_map (foreign_shapes format device entrances.now) networks.now) }
{
    for network in networks {
        push_by(out, format, device, entrances, network)?;
    }
    Ok(())
}

/// The shapes of the asks that a gateway of this configuration raises. An `Err` only where a growth
/// of memory was refused.
pub fn shapes_of(alloc: Global, config: &Config) -> Result<Vec<Shape>, AllocError>
    ensures { IfOk result (λ list. list.items ≡ shapes config.now) }
{
    let format = config.format();
    let device = u64::from(config.device().network.get());
    let ports = config.ports();
    let networks = gaps(alloc, device, ports)?;
    let entrances = entrances(alloc, ports)?;
    let mut out = Vec::new(alloc);
    push_own(&mut out, format, device, ports)?;
    push_foreign(&mut out, format, device, &entrances, &networks)?;
    Ok(out)
}
