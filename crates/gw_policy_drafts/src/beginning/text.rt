//! The text of a configuration to begin with.

use crate::beginning::asserted::gaps_of;
use crate::beginning::ports::address_of;
use crate::beginning::site::Site;
use crate::migration::{put_field_items, put_peers, put_port_head, put_routes};
use gw_addr::{put_decimal, put_slice};
use gw_configuration::{Port, Route};
use gw_rules::FieldName;
use std::alloc::{AllocError, Global};

/// What comes before the ports.
const HEAD: &[u8] = b"\
# A configuration to begin with, written by `bacgwctl init`. Change what is said to be yours below, and try it:
#
#     bacgwctl explain --config site.toml
#     bacgwctl ask --config site.toml --from STATION --to STATION --read analog-value,1
#
# Nobody but the set `operators`, if there is one, writes anything, and nobody registers, changes tables or teaches routes. What no rule
# allows is denied and logged.
format = 3

# The gateway's own device: the one station of a network of its own. Yours: network, instance and name, which nothing else of the site
# has, and the vendor identifier that ASHRAE gave you.
[device]
network = 100
instance = 1234
name = \"gateway\"
vendor = 999
vendor_name = \"Example\"
model = \"gw-1\"
firmware = \"1\"
software = \"1\"
revision = 12
database = 1

# The first port is port 1. Its `stations` are the hosts that belong to it, its own subnet and those of its peers: nobody else is heard.
";

/// What comes after the routes.
const POINT: &[u8] = b"
# A point that the gateway shows itself: type 5 is a Binary Value. Yours: as many as you like, or none.
[[object]]
type = 5
instance = 1
name = \"in-use\"
default = 1

[[set]]
name = \"reads\"
items = [\"ReadProperty\", \"ReadPropertyMultiple\"]

[[set]]
name = \"answers\"
items = [\"SimpleACK\", \"ComplexACK\", \"SegmentACK\", \"Error\", \"Reject\", \"Abort\"]
";

const OPERATORS: &[u8] = b"
# Who may write. Yours: add a station here, and in the assertion \"only-operators-write\" below.
[[set]]
name = \"operators\"
items = [";

/// The rules up to that of the operators, each up to its networks.
const FIND: &[u8] = b"
# The first rule that matches decides. A field that a rule doesn't name matches everything.

[[rule]]
name = \"find\"
note = \"Devices find each other across the networks; clocks, private transfers and text messages stay where they are\"
allow = true
operation = [\"cast\", \"route\"]
service = [\"I-Am\", \"I-Have\", \"Who-Has\", \"Who-Is\"]
source_network = ";

const FIND_NETWORKS: &[u8] = b"
[[rule]]
name = \"find-networks\"
note = \"They ask which networks lie behind the gateway\"
allow = true
operation = [\"cast\", \"network\"]
service = [\"Who-Is-Router-To-Network\", \"What-Is-Network-Number\"]
source_network = ";

const READ: &[u8] = b"
[[rule]]
name = \"read\"
note = \"Everybody finds and reads the points of the gateway and of each other; a request that names none doesn't pass\"
allow = true
operation = [\"list\", \"read\"]
object_type = [[0, 1023]]
source_network = ";

const PASS_ON: &[u8] = b"
[[rule]]
name = \"pass-on\"
note = \"Requests that the other rules judge go on to the other networks, and so do answers\"
allow = true
operation = [\"route\"]
service = [\"@reads\", \"@answers\"]
source_network = ";

const CHANGES: &[u8] = b"
# If a point is to be hidden, leave this out: what is subscribed to isn't judged by its object.
[[rule]]
name = \"changes-of-value\"
note = \"Subscriptions to values, and their notifications\"
allow = true
operation = [\"route\"]
service = [\"SubscribeCOV\", \"ConfirmedCOVNotification\", \"UnconfirmedCOVNotification\"]
source_network = ";

/// The rules of the operators, up to their destinations.
const OPERATOR_WRITES: &[u8] = b"
[[rule]]
name = \"operator-writes\"
note = \"Operators write values of devices, at their priorities: 1 to 7 stay with the plant\"
allow = true
both_ways = true
operation = [\"write\"]
sender = [\"@operators\"]
object_type = [[0, 1023]]
property = [\"present-value\"]
priority = [[8, 16]]
source_network = ";

/// What comes between the source networks and the destinations.
const DESTINATION: &[u8] = b"\ndestination = ";

/// The assertions.
const ASSERTIONS: &[u8] = b"
# What must hold, whatever is added above: `bacgwctl check` tries each over every ask that the gateway can raise, and the service doesn't
# start with one that is broken.

[[assert]]
name = \"no-stranger\"
verdict = \"denied\"
operation = [\"enter\"]

[[assert]]
name = \"nobody-speaks-for-others\"
verdict = \"denied\"
operation = [\"claim\"]

[[assert]]
name = \"nobody-changes-tables\"
verdict = \"denied\"
operation = [\"register\", \"delete\", \"read-table\", \"write-table\", \"learn\"]
";

const NOBODY_WRITES: &[u8] = b"
[[assert]]
name = \"nobody-writes\"
verdict = \"denied\"
operation = [\"any-write\"]
";

const ONLY_OPERATORS: &[u8] = b"
# All senders but the operators.
[[assert]]
name = \"only-operators-write\"
verdict = \"denied\"
operation = [\"any-write\"]
";

const WRITES_ALONE: &[u8] = b"
# They write by WriteProperty alone: no restart, no file, no object is made or removed, no clock is set.
[[assert]]
name = \"no-other-service-changes\"
verdict = \"denied\"
operation = [\"any-write\"]
service = [[0, 14], [16, 1031]]

[[assert]]
name = \"the-plant-keeps-its-priorities\"
verdict = \"denied\"
operation = [\"write\"]
priority = [[1, 7]]

[[assert]]
name = \"values-alone\"
verdict = \"denied\"
operation = [\"write\"]
property = [[0, 84], [86, 4194303]]

[[assert]]
name = \"nobody-writes-the-gateway\"
verdict = \"denied\"
operation = [\"any-write\"]
destination = [100, 65535]

[[assert]]
name = \"operators-write\"
verdict = \"allowed\"
operation = [\"write\"]
sender = [\"@operators\"]
object_type = [[0, 1023]]
property = [\"present-value\"]
priority = [[8, 16]]
source_network = ";

const READS_PASS: &[u8] = b"
[[assert]]
name = \"reads-pass\"
verdict = \"allowed\"
operation = [\"read\"]
object_type = [[0, 1023]]
source_network = ";

const ANSWERS_PASS: &[u8] = b"
[[assert]]
name = \"answers-pass\"
verdict = \"allowed\"
operation = [\"route\"]
service = [\"@answers\"]
source_network = ";

/// Appends texts, one after the other.
fn put_all(out: &mut Vec<u8>, texts: &[&[u8]]) -> Result<(), AllocError> {
    for text in texts {
        put_slice(out, text)?;
    }
    Ok(())
}

/// The list of the networks of so many ports.
fn port_list(alloc: Global, site: &Site) -> Result<Vec<u8>, AllocError> {
    let mut list = Vec::new(alloc);
    put_slice(&mut list, b"[[1, ")?;
    put_decimal(&mut list, site.ports.len())?;
    put_slice(&mut list, b"]]")?;
    Ok(list)
}

/// The list of all networks but the device's.
fn network_list(alloc: Global, site: &Site) -> Result<Vec<u8>, AllocError> {
    let mut list = Vec::new(alloc);
    put_slice(&mut list, b"[[1, ")?;
    put_decimal(&mut list, site.ports.len())?;
    put_slice(&mut list, b"]")?;
    for router in &site.routers {
        put_slice(&mut list, b", ")?;
        put_decimal(&mut list, router.number)?;
    }
    put_slice(&mut list, b"]")?;
    Ok(list)
}

/// Appends the items of the operators' set, and its end.
fn put_operators(out: &mut Vec<u8>, site: &Site) -> Result<(), AllocError> {
    put_slice(out, OPERATORS)?;
    for (place, operator) in site.operators.iter().enumerate() {
        if 0 < place {
            put_slice(out, b", ")?;
        }
        put_slice(out, b"\"")?;
        address_of(*operator).put_text(out)?;
        put_slice(out, b"\"")?;
    }
    put_slice(out, b"]\n")
}

/// Appends the subnets of a port's stations.
fn put_stations(alloc: Global, out: &mut Vec<u8>, port: &Port) -> Result<(), AllocError> {
    put_slice(out, b"stations = [")?;
    for (place, subnet) in port.stations.as_slice().iter().enumerate() {
        let text = subnet.to_string(alloc)?;
        put_slice(out, if 0 < place { b", \"" } else { b"\"" })?;
        put_slice(out, text.as_bytes())?;
        put_slice(out, b"\"")?;
    }
    put_slice(out, b"]\n")
}

/// Appends the table of a port, and those of its peers.
fn put_port(alloc: Global, out: &mut Vec<u8>, port: &Port) -> Result<(), AllocError> {
    put_port_head(out, port)?;
    put_stations(alloc, out, port)?;
    if let Some(manager) = port.bbmd {
        put_slice(out, b"bbmd = \"")?;
        manager.put_text(out)?;
        put_slice(out, b"\"\n")?;
    }
    put_peers(out, port.peers.as_slice())
}

/// Appends the rules and the assertions of the operators, if there are any.
fn put_writers(
    alloc: Global,
    out: &mut Vec<u8>,
    site: &Site,
    ports: &[u8],
    networks: &[u8],
) -> Result<(), AllocError> {
    if site.operators.is_empty() {
        return put_all(out, &[ASSERTIONS, NOBODY_WRITES]);
    }
    put_all(out, &[OPERATOR_WRITES, ports, DESTINATION, networks, b"\n"])?;
    put_all(out, &[ASSERTIONS, ONLY_OPERATORS])?;
    put_field_items(out, FieldName::Sender, &gaps_of(alloc, &site.operators)?)?;
    put_all(
        out,
        &[b"\n", WRITES_ALONE, ports, DESTINATION, networks, b"\n"],
    )
}

/// The text of a configuration of these ports and routes.
pub(crate) fn text_of(
    alloc: Global,
    site: &Site,
    ports: &[Port],
    routes: &[Route],
) -> Result<Vec<u8>, AllocError> {
    let near = port_list(alloc, site)?;
    let all = network_list(alloc, site)?;
    let mut out = Vec::new(alloc);
    put_slice(&mut out, HEAD)?;
    for port in ports {
        put_port(alloc, &mut out, port)?;
    }
    put_routes(&mut out, routes)?;
    put_slice(&mut out, POINT)?;
    if !site.operators.is_empty() {
        put_operators(&mut out, site)?;
    }
    put_all(
        &mut out,
        &[
            FIND,
            &all,
            b"\n",
            FIND_NETWORKS,
            &all,
            b"\n",
            READ,
            &all,
            b"\n",
        ],
    )?;
    put_all(
        &mut out,
        &[
            PASS_ON,
            &all,
            DESTINATION,
            &all,
            b"\n",
            CHANGES,
            &all,
            DESTINATION,
            &all,
            b"\n",
        ],
    )?;
    put_writers(alloc, &mut out, site, &near, &all)?;
    put_all(
        &mut out,
        &[
            READS_PASS,
            &all,
            DESTINATION,
            &all,
            b"\n",
            ANSWERS_PASS,
            &all,
            DESTINATION,
            &all,
            b"\n",
        ],
    )?;
    Ok(out)
}
