//! What a gateway is configured with.
ghost use Rattle.std.specs.Prelude.{◌≡◌, ◌≤◌, ◌||◌, ◌&&◌, ◌++◌, ◌∷◌, [], length, map, not, IfOk, IsFalse, IsTrue};
ghost use Rattle.std.specs.List.{list_all};
ghost use Rattle.gw_addr.specs.declared.TheConstants.{MAX_PORTS};
ghost use Rattle.gw_rules.specs.Format.{names_stations};
ghost use Rattle.gw_configuration.specs.Configuration.{are_places, is_assertable, is_by, is_configurable, is_managed, is_named, is_plain, policing_of};
ghost use Rattle.gw_configuration.specs.Duplicates.{has_duplicates, unique};
ghost use Rattle.gw_configuration.specs.Reading.{Finds};

use crate::duplicates::repetition;
use crate::{Assertion, Device, Located, Object, Parts, Port, Route, Set, Text};
use gw_addr::NetNum;
use gw_rules::{Format, RuleList};
use std::alloc::{AllocError, Global};
use std::marker::Model;

/// What a gateway is configured with: its parts, each in the order of the text, in which nothing
/// appears twice that may appear only once. Contracts see the parts.
pub struct Config {
    parts: Parts,
}

// By hand: a derived one is proved part by part wherever one is dropped (docs/GATE.md).
impl Drop for Config {
    fn drop(self) {
        let Config { parts: _ } = self;
    }
}

impl Model for Config {
    ghost use Rattle.std.specs.Prelude.{IsFalse};
    ghost use Rattle.gw_configuration.specs.Configuration.{Configuration};
    ghost use Rattle.gw_configuration.specs.Duplicates.{has_duplicates};

    ghost Value = { Configuration };

    ghost view = { λ c. c.parts };

    ghost invariant = { λ c. IsFalse (has_duplicates c.parts) };
}

impl Config {
    /// The configuration of these parts. `Duplicate` with its place if something appears twice that may
    /// appear only once; `Memory` if there is none for that check.
    #[tactic(auto, using(crate::proofs::Repeats::none_stands_twice))]
    pub fn of_parts<'a>(alloc: Global, parts: Parts) -> Result<Self, Located<'a>>
        ensures { Finds (λ c. c) result (unique parts) }
    {
        match repetition(alloc, &parts)? {
            Some(located) => Err(located),
            None => Ok(Config { parts }),
        }
    }

    /// The format of the policy.
    pub fn format(&self) -> Format
        ensures format { result ≡ self.now.format }
        // In formats 1 and 2 nothing is announced, no port has stations or another broadcast manager, there is no
        // set, no note, no audit and no assertion, no rule has more than four ranges for a field or is quiet, and
        // each is that of its own table.
        ensures plain { IsTrue (names_stations self.now.format
            || (not self.now.announce && is_plain self.now.ports (policing_of self.now))) }
    {
        self.parts.format()
    }

    /// Whether it announces networks: at the start those that each port leads to, and each that is learned
    /// (clauses 6.6.2 and 6.6.3.3). In formats 1 and 2 it doesn't.
    pub fn announces(&self) -> bool
        ensures { result ≡ self.now.announce }
    {
        self.parts.announces()
    }

    /// The gateway's own device, which has a name.
    pub fn device(&self) -> &Device
        ensures device { result.now ≡ self.now.device }
        ensures named { IsTrue (is_named self.now.device.name) }
        // No network, address, identifier or name appears twice in the whole configuration.
        ensures once { IsFalse (has_duplicates self.now) }
    {
        self.parts.device()
    }

    /// The ports in order, 1 to 8 of them: the first is port 1.
    pub fn ports(&self) -> &[Port]
        ensures ports { result.now ≡ self.now.ports }
        ensures some { 1 ≤ length self.now.ports }
        ensures most { length self.now.ports ≤ MAX_PORTS }
        // Each is the broadcast manager of its subnet or has another one beside it.
        ensures managed { IsTrue (list_all is_managed self.now.ports) }
        // No network, address, identifier or name appears twice in the whole configuration.
        ensures once { IsFalse (has_duplicates self.now) }
    {
        self.parts.ports()
    }

    /// The networks that the gateway reaches itself: those of the ports in order, and that of the device.
    pub fn own_networks(&self, alloc: Global) -> Result<Vec<NetNum>, AllocError>
        ensures networks { IfOk result (λ networks.
            networks.items ≡ map (λ port. port.network) self.now.ports ++ self.now.device.network ∷ []) }
        // No network, address, identifier or name appears twice in the whole configuration.
        ensures once { IsFalse (has_duplicates self.now) }
    {
        let mut networks = Vec::new(alloc);
        for port in self.ports() {
            networks.push(port.network)?;
        }
        networks.push(self.device().network)?;
        Ok(networks)
    }

    /// The routes in order, at most 512, each by one of the ports.
    pub fn routes(&self) -> &[Route]
        ensures routes { result.now ≡ self.now.routes }
        ensures most { length self.now.routes ≤ 512 }
        ensures by { IsTrue (list_all (is_by (length self.now.ports)) self.now.routes) }
    {
        self.parts.routes()
    }

    /// The objects in order, at most 256, each with a name.
    pub fn objects(&self) -> &[Object]
        ensures objects { result.now ≡ self.now.objects }
        ensures most { length self.now.objects ≤ 256 }
        ensures named { IsTrue (list_all (λ object. is_named object.name) self.now.objects) }
    {
        self.parts.objects()
    }

    /// The policy, of rules whose fields can have what they name, and of which none is named `default`.
    pub fn rules(&self) -> &RuleList
        ensures rules { result.now ≡ self.now.rules }
        ensures configurable { IsTrue (list_all (is_configurable self.now.format) self.now.rules) }
    {
        self.parts.rules()
    }

    /// For each rule in their order the position, from 0, of the table of the text that it comes from.
    pub fn tables(&self) -> &[u16]
        ensures tables { result.now ≡ self.now.tables }
        ensures each { length self.now.tables ≡ length self.now.rules }
        // In order, and each is that of a table.
        ensures places { IsTrue (are_places self.now.written 0 self.now.tables) }
    {
        self.parts.tables()
    }

    /// How many tables of rules the text has, at most 512, those of rules that are turned off too.
    pub fn written_rules(&self) -> u16
        ensures written { result ≡ self.now.written }
        ensures most { self.now.written ≤ 512 }
    {
        self.parts.written_rules()
    }

    /// The note of each rule in their order, empty if it has none.
    pub fn notes(&self) -> &[Text]
        ensures notes { result.now ≡ self.now.notes }
        ensures each { length self.now.notes ≡ length self.now.rules }
    {
        self.parts.notes()
    }

    /// For each rule in their order, whether what it allows is written too.
    pub fn audits(&self) -> &[bool]
        ensures audits { result.now ≡ self.now.audits }
        ensures each { length self.now.audits ≡ length self.now.rules }
    {
        self.parts.audits()
    }

    /// The sets in order. In formats 1 and 2 there is none.
    pub fn sets(&self) -> &[Set]
        ensures { result.now ≡ self.now.sets }
    {
        self.parts.sets()
    }

    /// The assertions in order, at most 512, none of them named `default`, of fields that can have what they name in
    /// format 3, with at most 256 ranges each.
    pub fn assertions(&self) -> &[Assertion]
        ensures assertions { result.now ≡ self.now.assertions }
        ensures most { length self.now.assertions ≤ 512 }
        ensures each { IsTrue (list_all is_assertable self.now.assertions) }
    {
        self.parts.assertions()
    }

    /// The policy, where the rest isn't wanted any more.
    pub fn into_rules(self) -> RuleList
        ensures { result ≡ self.rules }
    {
        let Config { parts } = self;
        parts.into_rules()
    }
}
