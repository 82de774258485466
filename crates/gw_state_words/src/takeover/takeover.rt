//! What a gateway of a configuration takes over of a saved state.
ghost use Rattle.std.specs.Prelude.{◌≡◌, ◌++◌, IfOk, OnOk};
ghost use Rattle.std.specs.List.{flat_map};
ghost use Rattle.gw_tables.specs.routes.Table.{Routed};
ghost use Rattle.gw_state_words.specs.takeover.Findings.{findings_with, lost_objects, lost_ports, object_findings, port_findings};
ghost use Rattle.gw_state_words.specs.takeover.Findings.{take_over};

use crate::takeover::TakeoverFinding;
use crate::takeover::lost::{add_lost_objects, add_lost_ports};
use crate::takeover::objects::add_objects;
use crate::takeover::ports::{add_ports, devices_kept};
use crate::takeover::routes::{add_routes, routes_kept};
use gw_addr::NetNum;
use gw_configuration::{Config, Object, Port};
use gw_state::{Saved, SavedObject, SavedPort};
use gw_tables::routes::Route;
use std::alloc::{AllocError, Global};
use std::marker::Model;

/// What a gateway of a configuration takes over of a saved state: what is found of each part, and how many
/// foreign devices and learned routes it takes over. It lends nothing of the state. Contracts see the parts.
pub struct TakeOver {
    findings: Vec<TakeoverFinding>,
    devices: usize,
    routes: usize,
}

// By hand: a derived one is proved part by part wherever one is dropped (docs/GATE.md).
impl Drop for TakeOver {
    fn drop(self) {
        let TakeOver {
            findings: _,
            devices: _,
            routes: _,
        } = self;
    }
}

impl Model for TakeOver {
    ghost use Rattle.gw_state_words.specs.takeover.Findings.{TakeOver};

    ghost Value = { TakeOver };

    ghost view = { λ t. record {
      findings = t.findings.items;
      devices = t.devices;
      routes = t.routes;
    } };
}

impl TakeOver {
    /// What is found of each part: the ports of the configuration in order, then the ports of the state that
    /// it hasn't; the learned routes; the objects of the configuration, then those of the state that it
    /// hasn't. Of an object it has the slots that aren't empty, by priority, and its default if that was
    /// written.
    pub fn findings(&self) -> &[TakeoverFinding]
        ensures { result.now ≡ self.now.findings }
    {
        self.findings.as_slice()
    }

    /// How many foreign devices are taken over.
    pub fn devices(&self) -> usize
        ensures { result ≡ self.now.devices }
    {
        self.devices
    }

    /// How many learned routes are taken over.
    pub fn routes(&self) -> usize
        ensures { result ≡ self.now.routes }
    {
        self.routes
    }
}

/// What a gateway of this configuration takes over of a saved state. The only fault is want of memory.
pub fn take_over(alloc: Global, config: &Config, saved: &Saved) -> Result<TakeOver, AllocError>
    ensures { IfOk result (λ taken. taken ≡ take_over config.now saved.now) }
{
    let kept = routes_kept(alloc, config, saved)?;
    let findings = findings(alloc, config, saved, &kept)?;
    Ok(TakeOver {
        findings,
        devices: devices_kept(config.ports(), saved.ports()),
        routes: kept.len(),
    })
}

/// What is found of each part, if these routes are kept.
fn findings(
    alloc: Global,
    config: &Config,
    saved: &Saved,
    kept: &[(NetNum, Route)],
) -> Result<Vec<TakeoverFinding>, AllocError>
    ensures { IfOk result (λ found. found.items ≡ findings_with config.now saved.now kept.now) }
{
    let mut found = Vec::new(alloc);
    add_both_ports(&mut found, config.ports(), saved.ports())?;
    add_routes(&mut found, config, saved, kept)?;
    add_both_objects(&mut found, config.objects(), saved.objects())?;
    Ok(found)
}

fn add_both_ports(
    found: &mut Vec<TakeoverFinding>,
    ports: &[Port],
    saved: &[SavedPort],
) -> Result<(), AllocError>
    ensures { OnOk result (found.new.items ≡ found.old.items ++
        (port_findings 1 ports.now saved.now ++ lost_ports ports.now saved.now 0 saved.now)) }
{
    add_ports(found, ports, saved)?;
    add_lost_ports(found, ports, saved)
}

fn add_both_objects(
    found: &mut Vec<TakeoverFinding>,
    objects: &[Object],
    saved: &[SavedObject],
) -> Result<(), AllocError>
    ensures { OnOk result (found.new.items ≡ found.old.items ++
        (flat_map (object_findings saved.now) objects.now ++
        lost_objects objects.now saved.now 0 saved.now)) }
{
    add_objects(found, objects, saved)?;
    add_lost_objects(found, objects, saved)
}
