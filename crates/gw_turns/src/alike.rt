//! Whether of two saved states the same lasts.

ghost use Rattle.std.specs.Prelude.{◌≡◌, ◌+◌, Bool};
ghost use Rattle.std.specs.Cmp.Lexicographic.{pointwise};
ghost use Rattle.gw_state.specs.Carried.{same_entry};
ghost use Rattle.gw_turns.specs.Keeping.{alike_but_ticks, are_ending_alike, ends_alike, is_fresh, is_same, is_same_object, is_same_port};
ghost use Rattle.gw_turns.specs.Keeping.{is_same_route, is_same_slot, lasts_alike};

use gw_addr::{BdtEntry, NetNum};
use gw_objects::PropertyValue;
use gw_state::{Saved, SavedObject, SavedPort};
use gw_tables::bdt_fdt::KeptDevice;
use gw_tables::routes::Route;

/// After how many ticks a state is kept again, also if it differs only in its ticks.
pub(crate) const OLDEST_TICKS: u64 = 600;

/// What of two saved states is compared.
#[derive(Clone, Copy)]
pub enum SavedPart {
    /// What lasts: the ports with their tables of peers, and the objects with their slots and defaults.
    Lasting,
    /// All but how many ticks there were, and how many are left of a registration that ends at the same tick; for fewer than 600
    /// ticks.
    AllButTicks,
}

/// Whether this of a saved state is the same as of one that is kept.
pub(crate) fn is_same(part: SavedPart, kept: &Saved, due: &Saved) -> bool
    ensures { result ≡ is_same part kept.now due.now }
{
    match part {
        SavedPart::Lasting => lasts_alike(kept, due),
        SavedPart::AllButTicks => alike_but_ticks(kept, due) && is_fresh(kept, due),
    }
}

/// Whether of two saved states the same lasts.
fn lasts_alike(a: &Saved, b: &Saved) -> bool
    ensures { result ≡ lasts_alike a.now b.now }
{
    are_alike(a.ports(), b.ports()) && are_alike(a.objects(), b.objects())
}

/// Whether two saved states differ at most in their ticks.
fn alike_but_ticks(a: &Saved, b: &Saved) -> bool
    ensures { result ≡ alike_but_ticks a.now b.now }
{
    lasts_alike(a, b)
        && have_same_ends(a, b)
        && are_alike(a.routes(), b.routes())
        && a.counts().denials == b.counts().denials
}

/// Whether a kept state is fresh: the other was made fewer than 600 ticks later.
fn is_fresh(kept: &Saved, due: &Saved) -> bool
    ensures { result ≡ is_fresh kept.now due.now }
{
    due.counts().ticks < kept.counts().ticks + OLDEST_TICKS
}

/// Whether at the ports of two saved states the same foreign devices are registered, and each ends at the same tick.
fn have_same_ends(a: &Saved, b: &Saved) -> bool
    ensures { result ≡ pointwise (are_ending_alike a.now.counts.since b.now.counts.since) a.now.ports b.now.ports }
{
    let (since, other) = (a.counts().since, b.counts().since);
    let (ports, others) = (a.ports(), b.ports());
    if ports.len() != others.len() {
        return false;
    }
    for (place, port) in ports.iter().enumerate() {
        let devices = port.devices.as_slice();
        if !are_ending_alike(since, other, devices, others[place].devices.as_slice()) {
            return false;
        }
    }
    true
}

/// Whether these foreign devices, kept after so many ticks, are those that were kept after so many others, and each ends at the same
/// tick.
fn are_ending_alike(since: u64, other: u64, a: &[KeptDevice], b: &[KeptDevice]) -> bool
    ensures { result ≡ pointwise (ends_alike since other) a.now b.now }
{
    if a.len() != b.len() {
        return false;
    }
    for (place, device) in a.iter().enumerate() {
        if !ends_alike(since, other, *device, b[place]) {
            return false;
        }
    }
    true
}

/// Whether two foreign devices, each kept after so many ticks, are one, and end at the same tick.
fn ends_alike(since: u64, other: u64, a: KeptDevice, b: KeptDevice) -> bool
    ensures { result ≡ ends_alike since other a b }
{
    a.address == b.address
        && a.time_to_live == b.time_to_live
        && end_of(since, a) == end_of(other, b)
}

/// The tick at which a foreign device ends that is kept after so many ticks.
fn end_of(since: u64, device: KeptDevice) -> u128
    ensures { result ≡ since + device.left }
{
    u128::from(since) + u128::from(device.left)
}

/// What can be alike.
trait Alike {
    /// What is alike.
    ghost alike: { Self → Self → Bool };

    /// Whether it is alike another.
    fn is_alike(&self, other: &Self) -> bool
        ensures { result ≡ alike self.now other.now };
}

/// Whether these are alike, one by one.
fn are_alike<T: Alike>(a: &[T], b: &[T]) -> bool
    ensures { result ≡ pointwise T.alike a.now b.now }
{
    if a.len() != b.len() {
        return false;
    }
    for (place, one) in a.iter().enumerate() {
        if !one.is_alike(&b[place]) {
            return false;
        }
    }
    true
}

impl Alike for BdtEntry {
    ghost alike = { same_entry };

    /// Whether two entries are one.
    fn is_alike(&self, other: &BdtEntry) -> bool {
        self.address == other.address && self.mask == other.mask
    }
}

impl Alike for (NetNum, Route) {
    ghost alike = { is_same_route };

    /// Whether two routes are one.
    fn is_alike(&self, other: &(NetNum, Route)) -> bool {
        self.0 == other.0 && self.1.port == other.1.port && self.1.next == other.1.next
    }
}

impl Alike for SavedPort {
    ghost alike = { is_same_port };

    /// Whether two ports are one, with the same table of peers.
    fn is_alike(&self, other: &SavedPort) -> bool {
        self.network == other.network
            && self.address == other.address
            && are_alike(self.peers.as_slice(), other.peers.as_slice())
            && are_alike(self.entries.entries(), other.entries.entries())
    }
}

impl Alike for Option<PropertyValue> {
    ghost alike = { is_same_slot };

    /// Whether two slots have the same value, or both are empty.
    fn is_alike(&self, other: &Option<PropertyValue>) -> bool {
        match (self, other) {
            (None, None) => true,
            (Some(one), Some(two)) => one.is_same(two),
            _ => false,
        }
    }
}

impl Alike for SavedObject {
    ghost alike = { is_same_object };

    /// Whether two objects are one, with the same slots and default.
    fn is_alike(&self, other: &SavedObject) -> bool {
        let (one, two) = (self.object(), other.object());
        one.kind == two.kind
            && one.instance == two.instance
            && self.configured().is_same(other.configured())
            && self.slots().default().is_same(other.slots().default())
            && are_alike(self.slots().slots(), other.slots().slots())
    }
}
