//! The grammar of a line: `tick`, or a datagram as `<port> <address> <hex>`.

ghost use Rattle.std.specs.Prelude.{◌≡◌, ◌≢◌, ◌+◌, ◌*◌, ◌/◌, ◌<◌, ◌≤◌, ◌++◌, ◌∷◌, ℕ, List, length};
ghost use Rattle.std.specs.Prelude.{Ok, None, Some, IsErr, IfSome, IsNone, codes, slice_index};
ghost use Rattle.std.specs.Bool.{OnTrue, OnFalse};
ghost use Rattle.std.specs.Option.{option_map};
ghost use Rattle.hex.specs.Hex.{decode_of};
ghost use Rattle.gw_addr.specs.declared.TheConstants.{MAX_PORTS};
ghost use Rattle.gw_addr.specs.declared.bip.BipAddr.{BipAddr};
ghost use Rattle.gw_addr.specs.Address.{IsAddress, text_of};
ghost use Rattle.gw_script.specs.Event.{Event as PlainEvent, IsOnPort, event_view, sender_of};
ghost use Rattle.gw_script.specs.Script.{IsLine, Writes, WritesDatagram, WritesOctets};
ghost use Rattle.gw_addr.specs.Text.{Lacks};
ghost use Rattle.gw_script.specs.internal.Pairs.{IsReadTo, IsValue};

use crate::event::{Event, SpelledAddr};
use crate::finding::place_of;
use gw_addr::BipAddr;

/// How many octets the datagram of a line has at most.
pub const MAX_DATAGRAM: usize = 2048;

/// How many values a digit has.
const BASE: u8 = 16;
/// How many octets are read from their digits, or written in them, at once.
pub(crate) const BLOCK: usize = 8;
/// How many at once where there are fewer.
pub(crate) const HALF_BLOCK: usize = 4;
/// How many digits a block has.
pub(crate) const BLOCK_DIGITS: usize = 2 * BLOCK;
/// How many a half block has.
pub(crate) const HALF_DIGITS: usize = 2 * HALF_BLOCK;

/// The event that a line of at most 4096 octets writes, or `None` where it writes none. The octets of a datagram are lent from the
/// buffer.
pub fn parse_line<'a>(
    ports: u8,
    line: &[u8],
    buffer: &'a mut [u8; MAX_DATAGRAM],
) -> Option<Event<'a>>
    requires ports { ports ≤ MAX_PORTS }
    requires most { length line.now ≤ 4096 }
    ensures on { IfSome result (λ event. IsOnPort ports (event_view event)) }
    ensures found { IfSome result (λ event. IsLine ports line.now (event_view event)) }
    ensures only { IsNone result → (e : PlainEvent) → ¬ (IsLine ports line.now e) }
{
    match parse_spelled(ports, line, buffer) {
        Some((event, _)) => Some(event),
        None => None,
    }
}

/// The event that a line of at most 4096 octets writes, as [`parse_line`] gives it, and the address that a datagram comes from as
/// the line spells it.
#[inline(always)]
pub fn parse_spelled<'a, 'b>(
    ports: u8,
    line: &'b [u8],
    buffer: &'a mut [u8; MAX_DATAGRAM],
) -> Option<(Event<'a>, Option<SpelledAddr<'b>>)>
    requires ports { ports ≤ MAX_PORTS }
    requires most { length line.now ≤ 4096 }
    ensures on { IfSome result (λ x. IsOnPort ports (event_view x.0)) }
    ensures found { IfSome result (λ x. IsLine ports line.now (event_view x.0)) }
    ensures only { IsNone result → (e : PlainEvent) → ¬ (IsLine ports line.now e) }
    ensures spelled { IfSome result (λ x. option_map (λ s. s.address) x.1 ≡ sender_of (event_view x.0)) }
{
    match line {
        [a, b, c, d] if is_tick([*a, *b, *c, *d]) => Some((Event::Tick, None)),
        _ => parse_datagram(ports, line, buffer),
    }
}

/// Whether four octets are the word `tick`, compared as one number.
#[inline(always)]
pub(crate) fn is_tick(word: [u8; 4]) -> bool
    ensures is { OnTrue result (word ≡ codes "tick") }
    ensures only { OnFalse result (¬ (word ≡ codes "tick")) }
{
    u32::from_le_bytes(word) == u32::from_le_bytes(*b"tick")
}

/// The datagram that a line writes, and whom it comes from as the line spells it.
#[inline(always)]
fn parse_datagram<'a, 'b>(
    ports: u8,
    line: &'b [u8],
    buffer: &'a mut [u8; MAX_DATAGRAM],
) -> Option<(Event<'a>, Option<SpelledAddr<'b>>)>
    requires ports { ports ≤ MAX_PORTS }
    requires most { length line.now ≤ 4096 }
    ensures on { IfSome result (λ x. IsOnPort ports (event_view x.0)) }
    ensures found { IfSome result (λ x. Writes ports line.now (event_view x.0)) }
    ensures spelled { IfSome result (λ x. option_map (λ s. s.address) x.1 ≡ sender_of (event_view x.0)) }
    ensures only { IsNone result → (port : ℕ) (from : BipAddr) (octets : List ℕ) →
        ¬ (WritesDatagram ports line.now port from octets) }
{
    let [digit, b' ', rest @ ..] = line else {
        return None;
    };
    let port = port_of(ports, *digit)?;
    let (address, text) = split_at_space(rest)?;
    let from = address_of(address)?;
    let octets = octets_of(text, buffer)?;
    let spelled = SpelledAddr {
        address: from,
        text: address,
    };
    Some((Event::Datagram { port, from, octets }, Some(spelled)))
}

/// The port that a digit names.
pub(crate) fn port_of(ports: u8, digit: u8) -> Option<u8>
    requires { ports ≤ MAX_PORTS }
    ensures found { IfSome result (λ port. (1 ≤ port) × (port ≤ ports) × (digit ≡ 48 + port)) }
    ensures only { IsNone result → (port : ℕ) → 1 ≤ port → port ≤ ports → digit ≢ 48 + port }
{
    if digit > b'0' && digit <= b'0' + ports {
        Some(digit - b'0')
    } else {
        None
    }
}

/// What is before the first space, and what is after it.
#[tactic(auto, using(crate::proofs::SearchLemmas::found_parts))]
pub(crate) fn split_at_space(text: &[u8]) -> Option<(&[u8], &[u8])>
    ensures found { IfSome result (λ x. text.now ≡ x.0.now ++ 32 ∷ x.1.now) }
    ensures first { IfSome result (λ x. Lacks 32 x.0.now) }
    ensures only { IsNone result → Lacks 32 text.now }
{
    let at = place_of(b' ', text)?;
    Some((&text[..at], &text[at + 1..]))
}

/// The address that the text writes.
pub(crate) fn address_of(text: &[u8]) -> Option<BipAddr>
    ensures found { IfSome result (λ a. text.now ≡ text_of a) }
    ensures is { IfSome result (λ a. IsAddress a) }
    ensures only { (a : BipAddr) → IsAddress a → text.now ≡ text_of a → result ≡ Some a }
{
    BipAddr::parse_octets(text).ok()
}

/// The value of a digit of either case, or a number over 15 where the character is none.
#[inline(always)]
fn digit_value(digit: u8) -> u8
    ensures { IsValue digit result }
{
    let number = digit.wrapping_sub(b'0');
    let letter = (digit | 0x20).wrapping_sub(b'a').saturating_add(10);
    let number = if number < 10 { number } else { u8::MAX };
    number.min(letter)
}

/// The values of so many digits from the first one of an octet on.
#[inline(always)]
fn block_values<const DIGITS: usize>(text: &[u8], start: usize) -> [u8; DIGITS]
    requires { 2 * start + DIGITS ≤ length text.now }
    ensures { (k : ℕ) → k < DIGITS → IsValue (slice_index text.now (2 * start + k)) (slice_index result k) }
{
    let mut values = [0; DIGITS];
    for k in 0..DIGITS {
        values[k] = digit_value(text[2 * start + k]);
    }
    values
}

/// Reads the octets of so many digits, of which this octet is the first, and answers the largest value of a digit up to their end.
#[inline(always)]
fn read_block<const DIGITS: usize>(text: &[u8], octets: &mut [u8], start: usize, largest: u8) -> u8
    requires pairs { length text.now ≡ 2 * length octets.old }
    requires within { 2 * start + DIGITS ≤ length text.now }
    requires before { IsReadTo text.now octets.old start largest }
    ensures { IsReadTo text.now octets.new (start + DIGITS / 2) result }
{
    let values = block_values::<DIGITS>(text, start);
    let mut largest = largest;
    for k in 0..DIGITS / 2 {
        let high = values[2 * k];
        let low = values[2 * k + 1];
        largest = largest.max(high).max(low);
        octets[start + k] = high.wrapping_mul(BASE).wrapping_add(low);
    }
    largest
}

/// Reads the octets of digit pairs block by block, and answers the largest value of a digit. The last block ends with the last
/// octet, so it may read octets of the block before it once more.
#[inline(always)]
fn read_blocks(text: &[u8], octets: &mut [u8]) -> u8
    requires pairs { length text.now ≡ 2 * length octets.old }
    requires some { BLOCK ≤ length octets.old }
    ensures { IsReadTo text.now octets.new (length octets.new) result }
{
    let last = octets.len() - BLOCK;
    let mut largest = 0;
    for block in 0..octets.len().div_ceil(BLOCK) {
        largest = read_block::<BLOCK_DIGITS>(text, octets, last.min(BLOCK * block), largest);
    }
    largest
}

/// Reads the octets of digit pairs one by one, and answers the largest value of a digit.
#[inline(always)]
fn read_each(text: &[u8], octets: &mut [u8]) -> u8
    requires { length text.now ≡ 2 * length octets.old }
    ensures { IsReadTo text.now octets.new (length octets.new) result }
{
    let mut largest = 0u8;
    for i in 0..octets.len() {
        let high = digit_value(text[2 * i]);
        let low = digit_value(text[2 * i + 1]);
        largest = largest.max(high).max(low);
        octets[i] = high.wrapping_mul(BASE).wrapping_add(low);
    }
    largest
}

/// Reads the octets of digit pairs, fewer than a block, and answers the largest value of a digit. Four or more are two half
/// blocks, which may have octets in common.
#[inline(always)]
#[tactic(auto, using(crate::proofs::PairLemmas::read_none, crate::proofs::PairLemmas::read_less))]
fn read_few(text: &[u8], octets: &mut [u8]) -> u8
    requires pairs { length text.now ≡ 2 * length octets.old }
    requires few { length octets.old < BLOCK }
    ensures { IsReadTo text.now octets.new (length octets.new) result }
{
    if octets.len() < HALF_BLOCK {
        return read_each(text, octets);
    }
    let last = octets.len() - HALF_BLOCK;
    let largest = read_block::<HALF_DIGITS>(text, octets, 0, 0);
    read_block::<HALF_DIGITS>(text, octets, last, largest)
}

/// Reads the octets of digit pairs, and answers whether all of them were digits. It checks that only at the end,
/// so that no digit is waited for.
#[inline(never)]
fn read_pairs(text: &[u8], octets: &mut [u8]) -> bool
    requires { length text.now ≡ 2 * length octets.old }
    ensures read { OnTrue result (decode_of text.now ≡ Ok octets.new) }
    ensures only { OnFalse result (IsErr (decode_of text.now)) }
{
    let largest = if octets.len() < BLOCK {
        read_few(text, octets)
    } else {
        read_blocks(text, octets)
    };
    largest < BASE
}

/// The octets that a text writes, lent from the buffer.
fn octets_of<'a>(text: &[u8], buffer: &'a mut [u8; MAX_DATAGRAM]) -> Option<&'a [u8]>
    requires { length text.now ≤ 4096 }
    ensures found { IfSome result (λ octets. WritesOctets text.now octets.now) }
    ensures only { IsNone result → (octets : List ℕ) → ¬ (WritesOctets text.now octets) }
{
    if let [b'-'] = text {
        return Some(&[]);
    }
    if text.is_empty() || text.len() % 2 != 0 {
        return None;
    }
    let octets = &mut buffer[..text.len() / 2];
    if read_pairs(text, octets) {
        Some(octets)
    } else {
        None
    }
}
