//! The line of what is found of a part.
ghost use Rattle.std.specs.Prelude.{◌≡◌, ◌++◌, codes, OnOk};
ghost use Rattle.gw_state_words.specs.Words.{beside_words, by_words, default_words, ending_words, finding_words, held_words, line};
ghost use Rattle.gw_state_words.specs.Words.{lost_object_words, lost_port_words, new_words, other_words, port_line_words, reason_words};
ghost use Rattle.gw_state_words.specs.Words.{refusal_words, route_words, slots_words, table_reason_words, table_words, taken_over_words};
ghost use Rattle.gw_state_words.specs.Words.{unmanaged_words, verdict_words, way_words, written_words};

use crate::takeover::{
    Absence, HeldPlace, ObjectName, PortName, RouteFate, RouteFinding, Sizes, TableFate,
    TakeoverFinding, ValueFate, ValueFinding,
};
use crate::words::{
    put_absence, put_counted, put_devices, put_numbered, put_object, put_peers, put_port,
    put_tables, put_value,
};
use gw_addr::put_decimal;
use std::alloc::AllocError;

/// Appends the line of what is found of a part.
pub(crate) fn put_line(out: &mut Vec<u8>, finding: &TakeoverFinding) -> Result<(), AllocError>
    ensures { OnOk result (out.new.items ≡ out.old.items ++ line finding.now) }
{
    put_finding(out, finding)?;
    out.extend_from_slice(b"\n")
}

fn put_finding(out: &mut Vec<u8>, finding: &TakeoverFinding) -> Result<(), AllocError>
    ensures { OnOk result (out.new.items ≡ out.old.items ++ finding_words finding.now) }
{
    match finding {
        TakeoverFinding::Port {
            number,
            port,
            sizes,
            table,
        } => put_kept_port(out, *number, *port, *sizes, *table),
        TakeoverFinding::NewPort { number, port } => {
            put_numbered(out, *number, *port)?;
            put_new(out)
        }
        TakeoverFinding::LostPort {
            port,
            sizes,
            absence,
        } => put_lost_port(out, *port, *sizes, *absence),
        TakeoverFinding::Route(route) => put_route(out, *route),
        TakeoverFinding::Value(value) => put_written(out, value),
        TakeoverFinding::NewObject(object) => {
            put_object(out, *object)?;
            put_new(out)
        }
        TakeoverFinding::LostObject {
            object,
            slots,
            default,
            absence,
        } => put_lost_object(out, *object, *slots, *default, *absence),
    }
}

fn put_new(out: &mut Vec<u8>) -> Result<(), AllocError>
    ensures { OnOk result (out.new.items ≡ out.old.items ++ new_words) }
{
    out.extend_from_slice(b": not in the state: begins anew")
}

// ---- ports

fn put_kept_port(
    out: &mut Vec<u8>,
    number: usize,
    port: PortName,
    sizes: Sizes,
    table: TableFate,
) -> Result<(), AllocError>
    ensures { OnOk result (out.new.items ≡ out.old.items ++ port_line_words number port sizes table) }
{
    put_numbered(out, number, port)?;
    out.extend_from_slice(b": ")?;
    put_table(out, table, sizes)
}

fn put_table(out: &mut Vec<u8>, table: TableFate, sizes: Sizes) -> Result<(), AllocError>
    ensures { OnOk result (out.new.items ≡ out.old.items ++ table_words table sizes) }
{
    match table {
        TableFate::AsConfigured => {
            out.extend_from_slice(b"peers as configured, ")?;
            put_devices(out, sizes.devices)?;
            put_taken_over(out)
        }
        TableFate::TakenOver => {
            put_tables(out, sizes)?;
            put_taken_over(out)
        }
        TableFate::OtherPeers => {
            put_other(out, sizes)?;
            put_beside(out, sizes.devices)?;
            put_taken_over(out)
        }
        TableFate::OtherManager => {
            put_table_reason(out, table)?;
            put_unmanaged(out, sizes)
        }
    }
}

fn put_taken_over(out: &mut Vec<u8>) -> Result<(), AllocError>
    ensures { OnOk result (out.new.items ≡ out.old.items ++ taken_over_words) }
{
    out.extend_from_slice(b" taken over")
}

/// Appends why the tables of a port aren't taken over as they were saved.
pub(crate) fn put_table_reason(out: &mut Vec<u8>, table: TableFate) -> Result<(), AllocError>
    ensures { OnOk result (out.new.items ≡ out.old.items ++ table_reason_words table) }
{
    match table {
        TableFate::OtherManager => out.extend_from_slice(
            b"another broadcast manager is configured",
        ),
        _ => out.extend_from_slice(b"other peers are configured"),
    }
}

/// Appends what is dropped where another broadcast manager is configured, if anything is.
fn put_unmanaged(out: &mut Vec<u8>, sizes: Sizes) -> Result<(), AllocError>
    ensures { OnOk result (out.new.items ≡ out.old.items ++ unmanaged_words sizes) }
{
    if sizes.are_empty() {
        return Ok(());
    }
    out.extend_from_slice(b": ")?;
    put_tables(out, sizes)?;
    out.extend_from_slice(b" dropped")
}

fn put_other(out: &mut Vec<u8>, sizes: Sizes) -> Result<(), AllocError>
    ensures { OnOk result (out.new.items ≡ out.old.items ++ other_words sizes) }
{
    put_reason_of_table(out)?;
    put_peers(out, sizes)
}

fn put_reason_of_table(out: &mut Vec<u8>) -> Result<(), AllocError>
    ensures { OnOk result (out.new.items ≡ out.old.items ++ codes "other peers are configured: ") }
{
    out.extend_from_slice(b"other peers are configured: ")
}

fn put_beside(out: &mut Vec<u8>, devices: usize) -> Result<(), AllocError>
    ensures { OnOk result (out.new.items ≡ out.old.items ++ beside_words devices) }
{
    out.extend_from_slice(b" dropped, ")?;
    put_devices(out, devices)
}

fn put_lost_port(
    out: &mut Vec<u8>,
    port: PortName,
    sizes: Sizes,
    absence: Absence,
) -> Result<(), AllocError>
    ensures { OnOk result (out.new.items ≡ out.old.items ++ lost_port_words port sizes absence) }
{
    out.extend_from_slice(b"port of ")?;
    put_port(out, port)?;
    out.extend_from_slice(b": ")?;
    put_absence(out, absence)?;
    out.extend_from_slice(b": ")?;
    put_tables(out, sizes)?;
    out.extend_from_slice(b" dropped")
}

// ---- routes

fn put_route(out: &mut Vec<u8>, route: RouteFinding) -> Result<(), AllocError>
    ensures { OnOk result (out.new.items ≡ out.old.items ++ finding_words (TakeoverFinding.Route route)) }
{
    out.extend_from_slice(b"route to ")?;
    put_way(out, route)?;
    out.extend_from_slice(b": ")?;
    put_route_fate(out, route.fate)
}

fn put_way(out: &mut Vec<u8>, route: RouteFinding) -> Result<(), AllocError>
    ensures { OnOk result (out.new.items ≡ out.old.items ++ way_words route) }
{
    put_decimal(out, route.network)?;
    put_by(out, route.port)?;
    out.extend_from_slice(b", next router ")?;
    route.next.put_text(out)
}

fn put_by(out: &mut Vec<u8>, port: Option<u8>) -> Result<(), AllocError>
    ensures { OnOk result (out.new.items ≡ out.old.items ++ by_words port) }
{
    match port {
        Some(port) => {
            out.extend_from_slice(b" by port ")?;
            put_decimal(out, port)
        }
        None => Ok(()),
    }
}

fn put_route_fate(out: &mut Vec<u8>, fate: RouteFate) -> Result<(), AllocError>
    ensures { OnOk result (out.new.items ≡ out.old.items ++ route_words fate) }
{
    if matches!(fate, RouteFate::TakenOver) {
        return out.extend_from_slice(b"taken over");
    }
    put_refusal(out, fate)?;
    out.extend_from_slice(b": dropped")
}

/// Appends why a route isn't taken over.
pub(crate) fn put_refusal(out: &mut Vec<u8>, fate: RouteFate) -> Result<(), AllocError>
    ensures { OnOk result (out.new.items ≡ out.old.items ++ refusal_words fate) }
{
    match fate {
        RouteFate::TakenOver => Ok(()),
        RouteFate::NoPort => out.extend_from_slice(b"its port is not configured"),
        RouteFate::Own => out.extend_from_slice(b"the network is one of the gateway's own"),
        RouteFate::Configured => out.extend_from_slice(b"a route to it is configured"),
        RouteFate::Replaced => {
            out.extend_from_slice(b"a later route of the state is taken over")
        }
        RouteFate::Full => out.extend_from_slice(b"512 other networks have a route"),
    }
}

// ---- objects

fn put_written(out: &mut Vec<u8>, value: &ValueFinding) -> Result<(), AllocError>
    ensures { OnOk result (out.new.items ≡ out.old.items ++ written_words value.now) }
{
    put_object(out, value.object)?;
    put_held(out, value.held)?;
    put_value(out, &value.value)?;
    put_verdict(out, value.fate)
}

fn put_held(out: &mut Vec<u8>, held: HeldPlace) -> Result<(), AllocError>
    ensures { OnOk result (out.new.items ≡ out.old.items ++ held_words held) }
{
    match held {
        HeldPlace::Slot(priority) => {
            out.extend_from_slice(b", priority ")?;
            put_decimal(out, priority)?;
            out.extend_from_slice(b": ")
        }
        HeldPlace::Default => out.extend_from_slice(b", default: "),
    }
}

fn put_verdict(out: &mut Vec<u8>, fate: ValueFate) -> Result<(), AllocError>
    ensures { OnOk result (out.new.items ≡ out.old.items ++ verdict_words fate) }
{
    put_reason(out, fate)?;
    put_ending(out, fate)
}

fn put_ending(out: &mut Vec<u8>, fate: ValueFate) -> Result<(), AllocError>
    ensures { OnOk result (out.new.items ≡ out.old.items ++ ending_words fate) }
{
    match fate {
        ValueFate::TakenOver => out.extend_from_slice(b": taken over"),
        ValueFate::OutOfRange | ValueFate::OtherDefault => out.extend_from_slice(b": dropped"),
    }
}

/// Appends why a value isn't taken over.
pub(crate) fn put_reason(out: &mut Vec<u8>, fate: ValueFate) -> Result<(), AllocError>
    ensures { OnOk result (out.new.items ≡ out.old.items ++ reason_words fate) }
{
    match fate {
        ValueFate::TakenOver => Ok(()),
        ValueFate::OutOfRange => out.extend_from_slice(b" is out of range"),
        ValueFate::OtherDefault => out.extend_from_slice(b": another default is configured"),
    }
}

fn put_lost_object(
    out: &mut Vec<u8>,
    object: ObjectName,
    slots: usize,
    default: bool,
    absence: Absence,
) -> Result<(), AllocError>
    ensures { OnOk result (out.new.items ≡
        out.old.items ++ lost_object_words object slots default absence) }
{
    put_object(out, object)?;
    out.extend_from_slice(b": ")?;
    put_absence(out, absence)?;
    out.extend_from_slice(b": ")?;
    put_slots(out, slots, default)
}

fn put_slots(out: &mut Vec<u8>, slots: usize, default: bool) -> Result<(), AllocError>
    ensures { OnOk result (out.new.items ≡ out.old.items ++ slots_words slots default) }
{
    put_counted(out, slots as u64, " slot", " slots")?;
    put_default(out, default)
}

fn put_default(out: &mut Vec<u8>, default: bool) -> Result<(), AllocError>
    ensures { OnOk result (out.new.items ≡ out.old.items ++ default_words default) }
{
    if default {
        out.extend_from_slice(b" and its default dropped")
    } else {
        out.extend_from_slice(b" dropped")
    }
}
