//! Numbers in one to four octets, the most significant first (clauses 20.2.4 and 20.2.5).

ghost use Rattle.std.specs.Prelude.{◌≡◌, ◌-◌, ◌≤◌};
ghost use Rattle.gw_codecs.specs.tags.Number.{unsigned_of, signed_of, octet_count, signed_count};

/// The number that one to four octets are (clause 20.2.4).
pub fn unsigned(content: &[u8]) -> Option<u32>
    ensures { result ≡ unsigned_of content.now }
{
    match content {
        [a] => Some(u32::from(*a)),
        [a, b] => Some(u32::from_be_bytes([0, 0, *a, *b])),
        [a, b, c] => Some(u32::from_be_bytes([0, *a, *b, *c])),
        [a, b, c, d] => Some(u32::from_be_bytes([*a, *b, *c, *d])),
        _ => None,
    }
}

/// The number that one to four octets are in two's complement (clause 20.2.5).
pub fn signed(content: &[u8]) -> Option<i32>
    ensures { result ≡ signed_of content.now }
{
    match content {
        [a] => Some(i32::from(i8::from_be_bytes([*a]))),
        [a, b] => Some(i32::from(i16::from_be_bytes([*a, *b]))),
        [a, b, c] => Some(i32::from_be_bytes([if *a < 128 { 0 } else { 255 }, *a, *b, *c])),
        [a, b, c, d] => Some(i32::from_be_bytes([*a, *b, *c, *d])),
        _ => None,
    }
}

/// How many of a number's four octets are zeros that aren't written.
pub fn leading_zeros(number: u32) -> usize
    ensures { result ≡ 4 - octet_count number }
{
    match number {
        0..=0xFF => 3,
        0x100..=0xFFFF => 2,
        0x1_0000..=0xFF_FFFF => 1,
        _ => 0,
    }
}

/// How many of a number's four octets only repeat its sign and aren't written.
pub fn leading_signs(number: i32) -> usize
    ensures { result ≡ 4 - signed_count number }
{
    match number {
        -0x80..=0x7F => 3,
        -0x8000..=0x7FFF => 2,
        -0x80_0000..=0x7F_FFFF => 1,
        _ => 0,
    }
}
