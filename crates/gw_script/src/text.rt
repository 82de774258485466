//! The pieces of the text that a replay writes, each appended to a buffer.

ghost use Rattle.std.specs.Prelude.{◌≡◌, ◌+◌, ◌*◌, ◌/◌, ◌<◌, ◌≤◌, ◌++◌, ◌-◌, IsOk, OnOk, length, slice_index, slice_range, take, vec_capacity, vec_len};
ghost use Rattle.hex.specs.Hex.{encode_upper, upper_digits};
ghost use Rattle.gw_addr.specs.Address.{text_of};
ghost use Rattle.gw_addr.specs.Appending.{IsAppended, IsAppendedWhole};
ghost use Rattle.gw_script.specs.Text.{EndsWith, end_line, send_head, send_line, send_lines, send_port, send_tail};
ghost use Rattle.gw_script.specs.internal.Digits.{AreDigits, AreWritten};

use crate::event::SpelledAddr;
use crate::line::{BLOCK, BLOCK_DIGITS};
use gw_addr::{BipAddr, keep_whole, put_decimal, put_octet, put_slice};
use std::alloc::AllocError;

/// The digits in upper case, in their order.
const UPPER_DIGITS: [u8; 16] = *b"0123456789ABCDEF";

/// Appends the line of a datagram that is sent. An `Err` only where the buffer had no room for it;
/// the buffer then holds what it held.
pub fn append_send(
    out: &mut Vec<u8>,
    port: u8,
    to: BipAddr,
    octets: &[u8],
) -> Result<(), AllocError>
    ensures { IsAppendedWhole (send_line port to octets.now) out.old out.new result }
{
    let len = out.len();
    let put = put_send(out, port, to, &None, octets);
    keep_whole(out, len, put)
}

/// Appends a line for each address that a datagram goes to, in order. The digits of its octets are made
/// once, and the text of an address that is at hand not again. An `Err` only where the buffer had no room
/// for the lines; the buffer then holds what it held.
pub fn append_sends_to(
    out: &mut Vec<u8>,
    port: u8,
    targets: &[BipAddr],
    at_hand: &Option<SpelledAddr<'_>>,
    octets: &[u8],
) -> Result<(), AllocError>
    ensures { let lines = send_lines port targets.now octets.now in
        IsAppendedWhole lines out.old out.new result }
{
    let len = out.len();
    let put = put_sends(out, port, targets, at_hand, octets);
    keep_whole(out, len, put)
}

/// Appends the line after the last of an event. An `Err` only if the buffer had no room for it;
/// the buffer then holds what it held.
pub fn append_end(out: &mut Vec<u8>) -> Result<(), AllocError>
    ensures { IsAppendedWhole end_line out.old out.new result }
{
    out.extend_from_slice(b"end\n")
}

/// Appends the line of a datagram that is sent. A front of it remains if a growth was refused.
fn put_send(
    out: &mut Vec<u8>,
    port: u8,
    to: BipAddr,
    at_hand: &Option<SpelledAddr<'_>>,
    octets: &[u8],
) -> Result<(), AllocError>
    ensures { IsAppended (send_line port to octets.now) out.old out.new result }
{
    put_head(out, port, to, at_hand)?;
    put_octets(out, octets)?;
    put_octet(out, b'\n')
}

/// Appends a line for each address that a datagram goes to. A front of them remains if a growth
/// was refused.
fn put_sends(
    out: &mut Vec<u8>,
    port: u8,
    targets: &[BipAddr],
    at_hand: &Option<SpelledAddr<'_>>,
    octets: &[u8],
) -> Result<(), AllocError>
    ensures { let lines = send_lines port targets.now octets.now in
        IsAppended lines out.old out.new result }
{
    let Some((first, others)) = targets.split_first() else {
        return Ok(());
    };
    put_send(out, port, *first, at_hand, octets)?;
    put_sends_again(out, port, others, at_hand, octets)
}

/// Appends a line for each address that a datagram goes to, after one of the same datagram. A front of
/// them remains if a growth was refused.
fn put_sends_again(
    out: &mut Vec<u8>,
    port: u8,
    targets: &[BipAddr],
    at_hand: &Option<SpelledAddr<'_>>,
    octets: &[u8],
) -> Result<(), AllocError>
    requires { EndsWith out.old.items (send_tail octets.now) }
    ensures { let lines = send_lines port targets.now octets.now in
        IsAppended lines out.old out.new result }
{
    for target in targets {
        put_send_again(out, port, *target, at_hand, octets)?;
    }
    Ok(())
}

/// Appends the line of a datagram that the line before brings too: its digits are copied from there. A
/// front of it remains if a growth was refused.
fn put_send_again(
    out: &mut Vec<u8>,
    port: u8,
    to: BipAddr,
    at_hand: &Option<SpelledAddr<'_>>,
    octets: &[u8],
) -> Result<(), AllocError>
    requires { EndsWith out.old.items (send_tail octets.now) }
    ensures { IsAppended (send_line port to octets.now) out.old out.new result }
{
    let end = out.len();
    put_head(out, port, to, at_hand)?;
    put_tail_again(out, end, octets)
}

/// Appends once more what a line before that place ends with: its octets and the line feed.
fn put_tail_again(out: &mut Vec<u8>, end: usize, octets: &[u8]) -> Result<(), AllocError>
    requires within { end ≤ vec_len out.old }
    requires stands { EndsWith (take end out.old.items) (send_tail octets.now) }
    ensures { IsAppended (send_tail octets.now) out.old out.new result }
{
    let count = 2 * octets.len() + 1;
    out.reserve(count)?;
    let place = out.len();
    out.resize(place + count, 0)?;
    copy_again(out.as_mut_slice(), end - count, end, place);
    Ok(())
}

/// Copies a part of what is before a place over what is after it.
fn copy_again(text: &mut [u8], start: usize, end: usize, place: usize)
    requires ordered { start ≤ end }
    requires before { end ≤ place }
    requires fits { place + (end - start) ≡ length text.old }
    ensures { let front = take place text.old in
        text.new ≡ front ++ slice_range front start end }
{
    let (front, back) = text.split_at_mut(place);
    back.copy_from_slice(&front[start..end]);
}

/// Appends what comes before the address in the line of a datagram that is sent. A port of one digit, as
/// each of a gateway has, is appended with the words around it at once.
fn put_port(out: &mut Vec<u8>, port: u8) -> Result<(), AllocError>
    ensures { IsAppended (send_port port) out.old out.new result }
{
    if port < 10 {
        return put_slice(out, &[b's', b'e', b'n', b'd', b' ', b'0' + port, b' ']);
    }
    put_slice(out, b"send ")?;
    put_decimal(out, port)?;
    put_octet(out, b' ')
}

/// Appends what comes before the octets in the line of a datagram that is sent.
fn put_head(
    out: &mut Vec<u8>,
    port: u8,
    to: BipAddr,
    at_hand: &Option<SpelledAddr<'_>>,
) -> Result<(), AllocError>
    ensures { IsAppended (send_head port to) out.old out.new result }
{
    put_port(out, port)?;
    put_address(out, to, at_hand)?;
    put_octet(out, b' ')
}

/// Appends the text of an address.
fn put_address(
    out: &mut Vec<u8>,
    address: BipAddr,
    at_hand: &Option<SpelledAddr<'_>>,
) -> Result<(), AllocError>
    ensures { IsAppended (text_of address) out.old out.new result }
{
    match at_hand {
        Some(spelled) if spelled.address.is_same(address) => put_slice(out, spelled.text),
        _ => address.put_text(out),
    }
}

/// Appends octets in upper-case digits.
fn put_octets(out: &mut Vec<u8>, octets: &[u8]) -> Result<(), AllocError>
    ensures { IsAppended (encode_upper octets.now) out.old out.new result }
{
    let Some(count) = octets.len().checked_mul(2) else {
        return Err(AllocError);
    };
    out.reserve(count)?;
    let start = out.len();
    out.resize(start + count, 0)?;
    write_digits(octets, &mut out[start..]);
    Ok(())
}

/// The digit of a number below 16, in upper case.
fn upper_digit(number: u8) -> u8
    requires { number < 16 }
    ensures { result ≡ slice_index upper_digits number }
{
    if number < 10 {
        b'0' + number
    } else {
        b'A' + (number - 10)
    }
}

/// The same digit, looked up, which takes fewer steps if no others are made beside it.
fn digit_of(number: u8) -> u8
    requires { number < 16 }
    ensures { result ≡ slice_index upper_digits number }
{
    UPPER_DIGITS[usize::from(number)]
}

/// So many digits, from the first one of this octet on.
#[inline(always)]
fn block_digits<const DIGITS: usize>(octets: &[u8], start: usize) -> [u8; DIGITS]
    requires { 2 * start + DIGITS ≤ 2 * length octets.now }
    ensures { AreDigits octets.now (2 * start) result (2 * (DIGITS / 2)) }
{
    let mut digits = [0; DIGITS];
    for i in 0..DIGITS / 2 {
        let octet = octets[start + i];
        digits[2 * i] = upper_digit(octet >> 4);
        digits[2 * i + 1] = upper_digit(octet & 15);
    }
    digits
}

/// Writes so many digits, from the first one of this octet on, after those before it.
#[inline(always)]
fn write_block<const DIGITS: usize>(octets: &[u8], digits: &mut [u8], start: usize)
    requires pairs { length digits.old ≡ 2 * length octets.now }
    requires within { 2 * start + DIGITS ≤ 2 * length octets.now }
    requires before { AreWritten octets.now digits.old (2 * start) }
    ensures { AreWritten octets.now digits.new (2 * (start + DIGITS / 2)) }
{
    let block = block_digits::<DIGITS>(octets, start);
    for i in 0..2 * (DIGITS / 2) {
        digits[2 * start + i] = block[i];
    }
}

/// Writes octets block by block. The last block ends with the last octet: octets that the block before it
/// has, too, are written once more.
#[inline(always)]
fn write_blocks(octets: &[u8], digits: &mut [u8])
    requires pairs { length digits.old ≡ 2 * length octets.now }
    requires some { BLOCK ≤ length octets.now }
    ensures { AreWritten octets.now digits.new (2 * length octets.now) }
{
    let last = octets.len() - BLOCK;
    for block in 0..octets.len().div_ceil(BLOCK) {
        write_block::<BLOCK_DIGITS>(octets, digits, last.min(BLOCK * block));
    }
}

/// Writes octets one by one.
#[inline(always)]
fn write_each(octets: &[u8], digits: &mut [u8])
    requires { length digits.old ≡ 2 * length octets.now }
    ensures { AreWritten octets.now digits.new (2 * length octets.now) }
{
    for i in 0..octets.len() {
        let octet = octets[i];
        digits[2 * i] = digit_of(octet >> 4);
        digits[2 * i + 1] = digit_of(octet & 15);
    }
}

/// Writes octets in upper-case digits over as many digits as they have.
#[inline(never)]
fn write_digits(octets: &[u8], digits: &mut [u8])
    requires { length digits.old ≡ 2 * length octets.now }
    ensures { digits.new ≡ encode_upper octets.now }
{
    if octets.len() < BLOCK {
        write_each(octets, digits);
    } else {
        write_blocks(octets, digits);
    }
}
