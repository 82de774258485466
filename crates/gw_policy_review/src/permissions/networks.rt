//! Which router speaks for which network.
ghost use Rattle.std.specs.Prelude.{◌≡◌, ◌++◌, ◌≤◌, codes, decimal, length, OnOk};
ghost use Rattle.std.specs.List.{flat_map};
ghost use Rattle.gw_addr.specs.declared.TheConstants.{MAX_PORTS};
ghost use Rattle.gw_script.specs.Order.{in_order};
ghost use Rattle.gw_policy_review.specs.permissions.Permissions.{device_line, network_lines, own_line, route_line, router_words};

use gw_addr::{put_slice, put_text_number};
use gw_configuration::{Config, Device, Port, Route};
use std::alloc::AllocError;

/// Appends a line for each network of a port, of the device and of a route.
pub(crate) fn put_networks(out: &mut Vec<u8>, config: &Config) -> Result<(), AllocError>
    ensures { OnOk result (out.new.items ≡ out.old.items ++ network_lines config.now) }
{
    put_own(out, config.ports())?;
    put_device(out, config.device())?;
    put_routes(out, config.routes())
}

fn put_own(out: &mut Vec<u8>, ports: &[Port]) -> Result<(), AllocError>
    requires { length ports.now ≤ MAX_PORTS }
    ensures { OnOk result (out.new.items ≡ out.old.items ++ in_order own_line 1 ports.now) }
{
    for place in 0..ports.len() {
        put_port(out, place + 1, &ports[place])?;
    }
    Ok(())
}

fn put_port(out: &mut Vec<u8>, number: usize, port: &Port) -> Result<(), AllocError>
    ensures { OnOk result (out.new.items ≡ out.old.items ++ own_line number port.now) }
{
    put_network(out, port.network.get())?;
    put_text_number(out, ": no router speaks for it, since port ", number)?;
    out.extend_from_slice(b" has it\n")
}

fn put_network(out: &mut Vec<u8>, network: u16) -> Result<(), AllocError>
    ensures { OnOk result (out.new.items ≡ out.old.items ++ (codes "network " ++ decimal network)) }
{
    put_text_number(out, "network ", network)
}

fn put_device(out: &mut Vec<u8>, device: &Device) -> Result<(), AllocError>
    ensures { OnOk result (out.new.items ≡ out.old.items ++ device_line device.now) }
{
    put_network(out, device.network.get())?;
    put_slice(out, b": no router speaks for it, since the device has it\n")
}

fn put_routes(out: &mut Vec<u8>, routes: &[Route]) -> Result<(), AllocError>
    ensures { OnOk result (out.new.items ≡ out.old.items ++ flat_map route_line routes.now) }
{
    for route in routes {
        put_route(out, route)?;
    }
    Ok(())
}

fn put_route(out: &mut Vec<u8>, route: &Route) -> Result<(), AllocError>
    ensures { OnOk result (out.new.items ≡ out.old.items ++ route_line route.now) }
{
    put_network(out, route.network.get())?;
    put_router(out, route)
}

fn put_router(out: &mut Vec<u8>, route: &Route) -> Result<(), AllocError>
    ensures { OnOk result (out.new.items ≡ out.old.items ++ router_words route.now) }
{
    out.extend_from_slice(b": the router ")?;
    route.next.put_text(out)?;
    put_text_number(out, " on port ", route.port)?;
    out.extend_from_slice(b" speaks for it\n")
}
