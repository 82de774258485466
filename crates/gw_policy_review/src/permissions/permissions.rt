//! Who may do what under a configuration.
ghost use Rattle.std.specs.Prelude.{◌≡◌, ◌++◌, length, IfOk, OnErr, OnOk};
ghost use Rattle.gw_policy_review.specs.permissions.Permissions.{AppendsFull, AppendsGrants, AppendsPermissions, AreLater, ArePermissions};
ghost use Rattle.gw_policy_review.specs.permissions.Texts.{Appends};
ghost use Rattle.gw_policy_review.specs.permissions.Questions.{claiming};

use crate::lint::ALL_STEPS;
use crate::permissions::allowances::put_allowances;
use crate::permissions::grants::{Deed, Inquiry, put_grants};
use crate::permissions::networks::put_networks;
use crate::permissions::notes::put_notes;
use crate::permissions::objects::{put_objects, put_plain};
use crate::permissions::ports::put_ports;
use crate::permissions::questions::claiming;
use crate::permissions::reach::put_reaches;
use crate::permissions::words::Placed;
use gw_addr::{keep_whole, put_slice};
use gw_configuration::Config;
use std::alloc::{AllocError, Global};

/// Appends who may do what under a configuration. In format 3 it has lines of each port, each network, the rules that let others enter or
/// speak for a network, what each rule lets whom ask for, the subnets that a rule reaches beside a port's own, each object, and each note,
/// in this order; in formats 1 and 2 only from which networks each object is hidden. `lines` are those of the text on which the tables of
/// the rules begin, or none if they aren't known.
///
/// ```text
/// port 1: stations are 192.168.1.0/24, and registered foreign devices
/// port 1: no rule lets a stranger enter
/// port 2: everyone is a station
/// network 1: no router speaks for it, since port 1 has it
/// network 2: no router speaks for it, since port 2 has it
/// network 100: no router speaks for it, since the device has it
/// network 300: the router 192.168.2.20:47808 on port 2 speaks for it
/// rule 5 "plant" (table 4, line 61) lets some others speak for a network behind a router
/// from network 1, sender 192.168.1.20:47808: write, to network 2, by rule 3 "operators", unless rule 1 "lock" denies it
/// rule 3 "operators" reaches 10.8.0.0/24 too, by network 2
/// object 2 (5,2) "door" is hidden from network 1: from whoever claims to be of it
/// object 2 (5,2) "door": network 1 can read Object_List, which names it
/// rule 5 "plant": the controllers behind the old router
/// ```
///
/// The searches for all lines share 262,144 steps. An `Err` only if a growth of memory was refused: the buffer then holds what it held.
pub fn put_permissions(
    alloc: Global,
    config: &Config,
    lines: &[u32],
    out: &mut Vec<u8>,
) -> Result<(), AllocError>
    ensures ok { OnOk result (AppendsPermissions config.now lines.now out.old.items out.new.items) }
    ensures err { OnErr result (out.new.items ≡ out.old.items) }
{
    let text = permissions(alloc, config, lines)?;
    let len = out.len();
    let put = put_slice(out, &text);
    keep_whole(out, len, put)
}

fn permissions(alloc: Global, config: &Config, lines: &[u32]) -> Result<Vec<u8>, AllocError>
    ensures { IfOk result (λ text. ArePermissions config.now lines.now text.items) }
{
    let mut text = Vec::new(alloc);
    if config.format().names_stations() {
        put_full(alloc, &mut text, &Placed { config, lines })?;
    } else {
        put_plain(&mut text, config.rules(), config.ports(), config.objects())?;
    }
    Ok(text)
}

fn put_full(alloc: Global, out: &mut Vec<u8>, placed: &Placed<'_>) -> Result<(), AllocError>
    ensures { OnOk result (AppendsFull placed.now.config.now placed.now.lines.now out.old.items out.new.items) }
{
    let after_ports = put_ports(alloc, out, placed, ALL_STEPS)?;
    put_networks(out, placed.config)?;
    let after_claims = put_claims(alloc, out, placed, after_ports)?;
    let after_allowances = put_allowances(alloc, out, placed, after_claims)?;
    let _rest = put_later(alloc, out, placed, after_allowances)?;
    Ok(())
}

fn put_claims(
    alloc: Global,
    out: &mut Vec<u8>,
    placed: &Placed<'_>,
    left: u32,
) -> Result<u32, AllocError>
    ensures { IfOk result (λ rest. AppendsGrants placed.now.config.now placed.now.lines.now Deed.Claim
        (claiming (length placed.now.config.now.ports)) left rest out.old.items out.new.items) }
{
    let inquiry = Inquiry {
        deed: Deed::Claim,
        shape: claiming(placed.config.ports().len() as u64),
        placed: *placed,
    };
    put_grants(alloc, out, &inquiry, left)
}

/// Appends what follows the lines of who may enter and speak for a network.
fn put_later(
    alloc: Global,
    out: &mut Vec<u8>,
    placed: &Placed<'_>,
    left: u32,
) -> Result<u32, AllocError>
    ensures { IfOk result (λ rest.
        Appends (AreLater placed.now.config.now placed.now.lines.now left rest) out.old.items out.new.items) }
{
    put_reaches(out, placed)?;
    let rest = put_objects(alloc, out, placed.config, left)?;
    put_notes(out, placed)?;
    Ok(rest)
}
