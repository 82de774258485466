//! What a line of a script writes: an event, or that the gateway announces itself.

ghost use Rattle.std.specs.Prelude.{◌≡◌, ◌≤◌, IfSome, IsNone, codes, length};
ghost use Rattle.std.specs.Bool.{OnFalse, OnTrue};
ghost use Rattle.gw_addr.specs.declared.TheConstants.{MAX_PORTS};
ghost use Rattle.gw_replay.specs.Entry.{ScriptEntry as PlainEntry, IsEntry, entry_view};

use gw_core::{Event, Gateway};
use gw_script::{MAX_DATAGRAM, SpelledAddr, parse_spelled};

/// What a line writes.
#[derive(Clone, Copy)]
pub(crate) enum ScriptEntry<'a> {
    /// An event.
    Comes(Event<'a>),
    /// `announce`, which is no event: the gateway announces itself on each port.
    Announces,
}

/// What a line of at most 4096 octets writes, or `None` if that is nothing; and the address that a datagram comes from as the
/// line spells it. `announce` writes something only to a gateway that announces.
#[inline(always)]
pub(crate) fn parse_entry<'a, 'b>(
    announces: bool,
    ports: u8,
    line: &'b [u8],
    buffer: &'a mut [u8; MAX_DATAGRAM],
) -> Option<(ScriptEntry<'a>, Option<SpelledAddr<'b>>)>
    requires ports { ports ≤ MAX_PORTS }
    requires most { length line.now ≤ 4096 }
    ensures found { IfSome result (λ x. IsEntry announces ports line.now (entry_view x.0)) }
    ensures only { IsNone result → (e : PlainEntry) → ¬ (IsEntry announces ports line.now e) }
{
    if let Some((event, sender)) = parse_spelled(ports, line, buffer) {
        return Some((ScriptEntry::Comes(event), sender));
    }
    if announces && is_announce(line) {
        return Some((ScriptEntry::Announces, None));
    }
    None
}

/// The same of a line for this gateway, which is asked whether it announces only where the line writes no event.
#[inline(always)]
pub(crate) fn parse_entry_for<'a, 'b>(
    gateway: &Gateway,
    ports: u8,
    line: &'b [u8],
    buffer: &'a mut [u8; MAX_DATAGRAM],
) -> Option<(ScriptEntry<'a>, Option<SpelledAddr<'b>>)>
    requires ports { ports ≤ MAX_PORTS }
    requires most { length line.now ≤ 4096 }
    ensures found { let announces = gateway.now.relay.announce in
        IfSome result (λ x. IsEntry announces ports line.now (entry_view x.0)) }
    ensures only { IsNone result → (e : PlainEntry) →
        ¬ (IsEntry gateway.now.relay.announce ports line.now e) }
{
    if let Some((event, sender)) = parse_spelled(ports, line, buffer) {
        return Some((ScriptEntry::Comes(event), sender));
    }
    if is_announce(line) && gateway.announces() {
        return Some((ScriptEntry::Announces, None));
    }
    None
}

/// Whether a line is `announce`.
fn is_announce(line: &[u8]) -> bool
    ensures is { OnTrue result (line.now ≡ codes "announce") }
    ensures only { OnFalse result (¬ (line.now ≡ codes "announce")) }
{
    matches!(line, [b'a', b'n', b'n', b'o', b'u', b'n', b'c', b'e'])
}
