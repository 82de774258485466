//! The lines that have no value in them: written, and read from the front of a text.

ghost use Rattle.std.specs.Prelude.{◌≡◌, ℕ, List, IfSome};
ghost use Rattle.std.specs.Option.{IsSomeAnd};
ghost use Rattle.gw_state_text.specs.internal.Put.{IsPut};
ghost use Rattle.gw_addr.specs.Entry.{IsBdtEntry};
ghost use Rattle.gw_state.specs.Saved.{are_countable};
ghost use Rattle.gw_state_text.specs.Text.{counts_line, device_line, entry_line, port_line, route_line};
ghost use Rattle.gw_state_text.specs.internal.Lines.{counts_on, device_on, entry_on, port_on, route_on};
ghost use Rattle.gw_state_text.specs.Lines.{counts_at, device_at, entry_at, port_at, route_at};
ghost use Rattle.gw_state_text.specs.Words.{Finds};
ghost use Rattle.gw_state_text.specs.Fit.{AreCounts, IsDevice, IsPlace, IsRoute};

use crate::words::{address_to, after_word, mask_to, network_to, number_to, octet_to, short_to};
use gw_addr::{BdtEntry, BipAddr, Mask, NetNum, put_decimal, put_octet, put_slice};
use gw_state::{MAX_COUNT, SavedCounts};
use gw_tables::bdt_fdt::KeptDevice;
use gw_tables::routes::Route;
use std::alloc::AllocError;

/// Appends the counts.
pub(crate) fn put_counts(out: &mut Vec<u8>, counts: SavedCounts) -> Result<(), AllocError>
    ensures { IsPut (counts_line counts) out.old.items out.new.items result }
{
    put_slice(out, b"counts ")?;
    put_decimal(out, counts.since)?;
    put_octet(out, b' ')?;
    put_decimal(out, counts.ticks)?;
    put_octet(out, b' ')?;
    put_decimal(out, counts.denials)?;
    put_octet(out, b'\n')
}

/// The counts at the front of a text, and what comes after them.
#[tactic(auto, unfolding(crate::specs::Lines::counts_at))]
pub(crate) fn counts_at(text: &[u8]) -> Option<(SavedCounts, &[u8])>
    ensures found { IfSome result (λ x. text.now ≡ counts_on x.0 x.1.now) }
    ensures is { IfSome result (λ x. AreCounts x.0) }
    ensures only { (c : SavedCounts) (rest : List ℕ) → AreCounts c → text.now ≡ counts_on c rest
        → IsSomeAnd result (λ x. (x.0 ≡ c) × (x.1.now ≡ rest)) }
    ensures exact { Finds (λ x. (x.0, x.1.now)) result (counts_at text.now) }
{
    let words = after_word(b"counts ", text)?;
    let (since, words) = number_to(b' ', words)?;
    let (ticks, words) = number_to(b' ', words)?;
    let (denials, rest) = number_to(b'\n', words)?;
    let counts = SavedCounts {
        since,
        ticks,
        denials,
    };
    Some((counts, rest))
}

/// Whether a gateway can have these counts.
pub(crate) fn are_countable(counts: SavedCounts) -> bool
    ensures { result ≡ are_countable counts }
{
    counts.since <= counts.ticks && counts.ticks <= MAX_COUNT && counts.denials <= MAX_COUNT
}

/// Appends the line of a port.
pub(crate) fn put_port(
    out: &mut Vec<u8>,
    network: NetNum,
    address: BipAddr,
) -> Result<(), AllocError>
    ensures { IsPut (port_line network address) out.old.items out.new.items result }
{
    put_slice(out, b"port ")?;
    network.put_text(out)?;
    put_octet(out, b' ')?;
    address.put_text(out)?;
    put_octet(out, b'\n')
}

/// A port at the front of a text, and what comes after its line.
#[tactic(auto, unfolding(crate::specs::Lines::port_at))]
pub(crate) fn port_at(text: &[u8]) -> Option<(NetNum, BipAddr, &[u8])>
    ensures found { IfSome result (λ x. text.now ≡ port_on x.0 x.1 x.2.now) }
    ensures is { IfSome result (λ x. IsPlace x.0 x.1) }
    ensures only { (n : ℕ) (a : BipAddr) (rest : List ℕ) → IsPlace n a → text.now ≡ port_on n a rest
        → IsSomeAnd result (λ x. (x.0 ≡ n) × (x.1 ≡ a) × (x.2.now ≡ rest)) }
    ensures exact { Finds (λ x. (x.0, x.1, x.2.now)) result (port_at text.now) }
{
    let words = after_word(b"port ", text)?;
    let Some((network, words)) = network_to(words) else {
        return None;
    };
    let (address, rest) = address_to(b'\n', words)?;
    Some((network, address, rest))
}

/// Appends the line of an entry, which begins with this word.
pub(crate) fn put_entry(out: &mut Vec<u8>, word: &[u8], entry: BdtEntry) -> Result<(), AllocError>
    ensures { IsPut (entry_line word.now entry) out.old.items out.new.items result }
{
    let octets = entry.mask;
    let mask = Mask { octets };
    put_slice(out, word)?;
    entry.address.put_text(out)?;
    put_octet(out, b' ')?;
    mask.put_text(out)?;
    put_octet(out, b'\n')
}

/// An entry at the front of a text, whose line begins with this word, and what comes after it.
#[tactic(auto, unfolding(crate::specs::Lines::entry_at))]
pub(crate) fn entry_at<'a>(word: &[u8], text: &'a [u8]) -> Option<(BdtEntry, &'a [u8])>
    ensures found { IfSome result (λ x. text.now ≡ entry_on word.now x.0 x.1.now) }
    ensures is { IfSome result (λ x. IsBdtEntry x.0) }
    ensures exact { Finds (λ x. (x.0, x.1.now)) result (entry_at word.now text.now) }
{
    let words = after_word(word, text)?;
    let (address, words) = address_to(b' ', words)?;
    let (mask, rest) = mask_to(words)?;
    let mask = mask.octets;
    Some((BdtEntry { address, mask }, rest))
}

/// Appends the line of a foreign device.
pub(crate) fn put_device(out: &mut Vec<u8>, device: KeptDevice) -> Result<(), AllocError>
    ensures { IsPut (device_line device) out.old.items out.new.items result }
{
    put_slice(out, b"device ")?;
    device.address.put_text(out)?;
    put_octet(out, b' ')?;
    put_decimal(out, device.time_to_live)?;
    put_octet(out, b' ')?;
    put_decimal(out, device.left)?;
    put_octet(out, b'\n')
}

/// A foreign device at the front of a text, and what comes after its line.
#[tactic(auto, unfolding(crate::specs::Lines::device_at))]
pub(crate) fn device_at(text: &[u8]) -> Option<(KeptDevice, &[u8])>
    ensures found { IfSome result (λ x. text.now ≡ device_on x.0 x.1.now) }
    ensures is { IfSome result (λ x. IsDevice x.0) }
    ensures only { (d : KeptDevice) (rest : List ℕ) → IsDevice d → text.now ≡ device_on d rest
        → IsSomeAnd result (λ x. (x.0 ≡ d) × (x.1.now ≡ rest)) }
    ensures exact { Finds (λ x. (x.0, x.1.now)) result (device_at text.now) }
{
    let words = after_word(b"device ", text)?;
    let (address, words) = address_to(b' ', words)?;
    let (time_to_live, words) = short_to(b' ', words)?;
    let (left, rest) = number_to(b'\n', words)?;
    let device = KeptDevice {
        address,
        time_to_live,
        left,
    };
    Some((device, rest))
}

/// Appends the line of a learned route.
pub(crate) fn put_route(out: &mut Vec<u8>, network: NetNum, route: Route) -> Result<(), AllocError>
    ensures { IsPut (route_line (network, route)) out.old.items out.new.items result }
{
    put_slice(out, b"route ")?;
    network.put_text(out)?;
    put_octet(out, b' ')?;
    put_decimal(out, route.port)?;
    put_octet(out, b' ')?;
    route.next.put_text(out)?;
    put_octet(out, b'\n')
}

/// A learned route at the front of a text, and what comes after its line.
#[tactic(auto, unfolding(crate::specs::Lines::route_at))]
pub(crate) fn route_at(text: &[u8]) -> Option<(NetNum, Route, &[u8])>
    ensures found { IfSome result (λ x. text.now ≡ route_on (x.0, x.1) x.2.now) }
    ensures is { IfSome result (λ x. IsRoute (x.0, x.1)) }
    ensures only { (n : ℕ) (r : Route) (rest : List ℕ) → IsRoute (n, r) → text.now ≡ route_on (n, r) rest
        → IsSomeAnd result (λ x. (x.0 ≡ n) × (x.1 ≡ r) × (x.2.now ≡ rest)) }
    ensures exact { Finds (λ x. (x.0, x.1, x.2.now)) result (route_at text.now) }
{
    let words = after_word(b"route ", text)?;
    let Some((network, words)) = network_to(words) else {
        return None;
    };
    let (port, words) = octet_to(b' ', words)?;
    let (next, rest) = address_to(b'\n', words)?;
    Some((network, Route { port, next }, rest))
}
