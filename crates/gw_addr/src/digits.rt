//! Numbers in decimal digits without leading zeros, as addresses and masks are written with them.

ghost use Rattle.std.specs.Prelude.{◌≡◌, ◌<◌, ◌≤◌, ◌+◌, ◌*◌, ◌^◌, ◌++◌, ◌∷◌, ◌↔◌, ◌%◌, [], ℕ, List, length};
ghost use Rattle.std.specs.Prelude.{codes, take, drop, slice_index, IsTrue};
ghost use Rattle.std.specs.Bool.{OnTrue};
ghost use Rattle.std.specs.Prelude.{Some, IfSome, IsSomeAnd};
ghost use Rattle.std.specs.Char.{IsAsciiDigit};
ghost use Rattle.std.specs.Fmt.{decimal};
ghost use Rattle.gw_addr.specs.internal.Digits.{begins_canonical_of};
ghost use Rattle.gw_addr.specs.Appending.{IsAppended};
ghost use Rattle.gw_addr.specs.Text.{four_text};

use itoa::Buffer;
use std::alloc::AllocError;

/// How many digits a number below 65536 has at most.
const MAX_DIGITS: usize = 5;
/// How many digits a number below 256 has at most.
const MAX_OCTET_DIGITS: usize = 3;
/// How many octets such a number takes at most with a character after it.
const MAX_PART: usize = MAX_OCTET_DIGITS + 1;
/// How many octets the text of an address takes at most: four such numbers, and a port.
pub const MAX_TEXT: usize = 4 * MAX_PART + MAX_DIGITS;

/// The UDP port of BACnet/IP, X'BAC0', which most nodes have (Annex J.1.2).
const BACNET_PORT: u16 = 0xBAC0;
/// Its digits.
const BACNET_DIGITS: [u8; MAX_DIGITS] = *b"47808";

/// Each number below 256 in decimal, with points after it that make four octets of it.
static OCTETS: [u8; 1024] = *b"\
    0...1...2...3...4...5...6...7...8...9...10..11..12..13..14..15..\
    16..17..18..19..20..21..22..23..24..25..26..27..28..29..30..31..\
    32..33..34..35..36..37..38..39..40..41..42..43..44..45..46..47..\
    48..49..50..51..52..53..54..55..56..57..58..59..60..61..62..63..\
    64..65..66..67..68..69..70..71..72..73..74..75..76..77..78..79..\
    80..81..82..83..84..85..86..87..88..89..90..91..92..93..94..95..\
    96..97..98..99..100.101.102.103.104.105.106.107.108.109.110.111.\
    112.113.114.115.116.117.118.119.120.121.122.123.124.125.126.127.\
    128.129.130.131.132.133.134.135.136.137.138.139.140.141.142.143.\
    144.145.146.147.148.149.150.151.152.153.154.155.156.157.158.159.\
    160.161.162.163.164.165.166.167.168.169.170.171.172.173.174.175.\
    176.177.178.179.180.181.182.183.184.185.186.187.188.189.190.191.\
    192.193.194.195.196.197.198.199.200.201.202.203.204.205.206.207.\
    208.209.210.211.212.213.214.215.216.217.218.219.220.221.222.223.\
    224.225.226.227.228.229.230.231.232.233.234.235.236.237.238.239.\
    240.241.242.243.244.245.246.247.248.249.250.251.252.253.254.255.";

/// Whether digits begin as a number does that has no leading zeros.
fn begins_canonical(digits: &[u8]) -> bool
    ensures { result ≡ begins_canonical_of digits.now }
{
    match digits {
        [] => false,
        [b'0'] => true,
        [first, ..] => matches!(first, b'1'..=b'9'),
    }
}

/// The number below 65536 that the text is in decimal digits without leading zeros.
#[inline(always)]
pub fn number_in(text: &[u8]) -> Option<u16>
    ensures found { IfSome result (λ n. text.now ≡ decimal n) }
    ensures only { (n : ℕ) → n < 2 ^ 16 → text.now ≡ decimal n → result ≡ Some n }
{
    if !begins_canonical(text) {
        return None;
    }
    if text.len() > MAX_DIGITS {
        return None;
    }
    let mut number = 0u32;
    for digit in text {
        let value = digit.wrapping_sub(b'0');
        if value > 9 {
            return None;
        }
        number = 10 * number + u32::from(value);
    }
    u16::try_from(number).ok()
}

/// The number below 65536 that the text is, as [`number_in`] answers it. The port of BACnet/IP is read
/// at once.
#[inline(always)]
pub fn port_in(text: &[u8]) -> Option<u16>
    ensures found { IfSome result (λ n. text.now ≡ decimal n) }
    ensures only { (n : ℕ) → n < 2 ^ 16 → text.now ≡ decimal n → result ≡ Some n }
{
    if is_bacnet_port(text) {
        return Some(BACNET_PORT);
    }
    number_in(text)
}

/// Whether the text is the digits of the port of BACnet/IP.
#[inline(always)]
fn is_bacnet_port(text: &[u8]) -> bool
    ensures { OnTrue result (text.now ≡ codes "47808") }
{
    matches!(text, [b'4', b'7', b'8', b'0', b'8'])
}

/// The number below 256 that the text is.
#[inline(always)]
pub fn octet_in(text: &[u8]) -> Option<u8>
    ensures found { IfSome result (λ n. text.now ≡ decimal n) }
    ensures only { (n : ℕ) → n < 2 ^ 8 → text.now ≡ decimal n → result ≡ Some n }
{
    u8::try_from(number_in(text)?).ok()
}

/// Whether this character is at that place.
fn stands_at(text: &[u8], place: usize, c: u8) -> bool
    ensures { IsTrue result ↔ ((place < length text.now) × (slice_index text.now place ≡ c)) }
{
    place < text.len() && text[place] == c
}

/// The number below 256 before that place, and the text after it.
#[inline(always)]
fn octet_to(text: &[u8], place: usize) -> Option<(u8, &[u8])>
    requires { place < length text.now }
    ensures found { IfSome result (λ x. (take place text.now ≡ decimal x.0) × (x.1.now ≡ drop (place + 1) text.now)) }
    ensures only { (n : ℕ) → n < 2 ^ 8 → take place text.now ≡ decimal n
        → IsSomeAnd result (λ x. (x.0 ≡ n) × (x.1.now ≡ drop (place + 1) text.now)) }
{
    let octet = octet_in(&text[..place])?;
    Some((octet, &text[place + 1..]))
}

/// The number below 256 before the first separator, and the text after it. It has three digits at
/// most, so each place that the separator can have is looked at in turn.
#[inline(always)]
pub fn octet_before(text: &[u8], separator: u8) -> Option<(u8, &[u8])>
    requires { ¬ IsAsciiDigit separator }
    ensures found { IfSome result (λ x. text.now ≡ decimal x.0 ++ separator ∷ x.1.now) }
    ensures only { (n : ℕ) (rest : List ℕ) → n < 2 ^ 8 → text.now ≡ decimal n ++ separator ∷ rest
        → IsSomeAnd result (λ x. (x.0 ≡ n) × (x.1.now ≡ rest)) }
{
    if stands_at(text, 1, separator) {
        return octet_to(text, 1);
    }
    if stands_at(text, 2, separator) {
        return octet_to(text, 2);
    }
    if stands_at(text, 3, separator) {
        return octet_to(text, 3);
    }
    None
}

/// The last decimal digit of a number.
#[inline(always)]
fn digit(number: u16) -> u8
    ensures { result ≡ 48 + number % 10 }
{
    b'0' + (number % 10) as u8
}

/// How many digits a number below 256 has in decimal.
#[inline(always)]
#[tactic(auto, using(crate::proofs::Written::one_counted, crate::proofs::Written::two_counted, crate::proofs::Written::three_counted))]
fn digit_count(number: u8) -> usize
    ensures digits { result ≡ length (decimal number) }
    ensures few { result ≤ MAX_OCTET_DIGITS }
{
    if number < 10 {
        1
    } else if number < 100 {
        2
    } else {
        3
    }
}

/// Writes a number in decimal at a place, and a character after it, and returns the place after that. Some
/// octets after it may change.
#[inline(always)]
fn write_octet(text: &mut [u8; MAX_TEXT], place: usize, number: u8, behind: u8) -> usize
    requires { place + MAX_PART ≤ MAX_TEXT }
    ensures text { take result text.new ≡ take place text.old ++ (decimal number ++ behind ∷ []) }
    ensures some { 0 < result }
    ensures within { result ≤ place + MAX_PART }
{
    let start = MAX_PART * usize::from(number);
    text[place..place + MAX_PART].copy_from_slice(&OCTETS[start..start + MAX_PART]);
    let end = place + digit_count(number);
    text[end] = behind;
    end + 1
}

/// Writes four numbers in decimal, with points between them, and a character after them, and returns the
/// place after that.
#[inline(always)]
pub fn write_four(text: &mut [u8; MAX_TEXT], octets: [u8; 4], behind: u8) -> usize
    ensures text { take result text.new ≡ four_text octets ++ behind ∷ [] }
    ensures some { 0 < result }
    ensures within { result ≤ 4 * MAX_PART }
{
    let [a, b, c, d] = octets;
    let place = write_octet(text, 0, a, b'.');
    let place = write_octet(text, place, b, b'.');
    let place = write_octet(text, place, c, b'.');
    write_octet(text, place, d, behind)
}

/// The digits of a number that has five. Those of the port of BACnet/IP are at hand.
#[inline(always)]
fn five_digits(number: u16) -> [u8; MAX_DIGITS]
    requires { 10000 ≤ number }
    ensures { result ≡ decimal number }
{
    if number == BACNET_PORT {
        return BACNET_DIGITS;
    }
    [
        digit(number / 10_000),
        digit(number / 1000),
        digit(number / 100),
        digit(number / 10),
        digit(number),
    ]
}

/// Writes a number in decimal at a place, and returns the place after it. Those of five digits, as most
/// ports have, are written as they are.
#[inline(always)]
pub fn write_port(text: &mut [u8; MAX_TEXT], place: usize, number: u16) -> usize
    requires { place + MAX_DIGITS ≤ MAX_TEXT }
    ensures text { take result text.new ≡ take place text.old ++ decimal number }
    ensures within { result ≤ MAX_TEXT }
{
    if number < 10_000 {
        return write_short_port(text, place, number);
    }
    let end = place + MAX_DIGITS;
    text[place..end].copy_from_slice(&five_digits(number));
    end
}

/// Writes a number of fewer digits in decimal at a place, and returns the place after it.
fn write_short_port(text: &mut [u8; MAX_TEXT], place: usize, number: u16) -> usize
    requires { place + MAX_DIGITS ≤ MAX_TEXT }
    ensures text { take result text.new ≡ take place text.old ++ decimal number }
    ensures within { result ≤ MAX_TEXT }
{
    let mut buffer = Buffer::new();
    let digits = buffer.format(number).as_bytes();
    let end = place + digits.len();
    text[place..end].copy_from_slice(digits);
    end
}
