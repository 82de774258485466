//! What a configuration surely lacks, though all that it has may be meant.
ghost use Rattle.std.specs.Prelude.{◌≡◌, ◌++◌, IfOk, OnErr, OnOk};
ghost use Rattle.gw_policy_review.specs.warnings.Oversights.{oversights_text};

use crate::warnings::rule_oversights::put_rules;
use crate::warnings::station_oversights::put_ports;
use gw_addr::{keep_whole, put_slice};
use gw_configuration::Config;
use std::alloc::{AllocError, Global};

/// Appends a line for each thing that a configuration surely lacks, those of the ports in their order and then those of the rules:
/// stations of a port that are on none of its subnets, or are also those of another port; a peer that isn't heard; reads and writes
/// that a rule allows in another network and none lets pass; and a network behind a router where a rule names no station. `lines` are
/// those on which the tables of the rules begin, or none if they aren't known.
///
/// ```text
/// warning: port 2: peer 1: address: 10.8.0.2:47808 is no station of the port, nor is a subnet for it, and no rule lets it enter: ..
/// warning: rule 7 "panel-writes" (table 5, line 60): operation: no rule lets the writes that it allows pass (route, service 15), ..
/// ```
///
/// An `Err` only if a growth of memory was refused: the buffer then holds what it held.
pub fn put_oversights(
    alloc: Global,
    config: &Config,
    lines: &[u32],
    out: &mut Vec<u8>,
) -> Result<(), AllocError>
    ensures ok { OnOk result (out.new.items ≡ out.old.items ++ oversights_text config.now lines.now) }
    ensures err { OnErr result (out.new.items ≡ out.old.items) }
{
    let text = oversights(alloc, config, lines)?;
    let len = out.len();
    let put = put_slice(out, &text);
    keep_whole(out, len, put)
}

fn oversights(alloc: Global, config: &Config, lines: &[u32]) -> Result<Vec<u8>, AllocError>
    ensures { IfOk result (λ text. text.items ≡ oversights_text config.now lines.now) }
{
    let mut text = Vec::new(alloc);
    put_ports(&mut text, config)?;
    put_rules(&mut text, config, lines)?;
    Ok(text)
}
