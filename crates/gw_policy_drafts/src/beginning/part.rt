//! The words of a call, read one by one.

ghost use Rattle.std.specs.Prelude.{◌≡◌, ◌≤◌, ◌<◌, ◌^◌, IfOk, IfSome};
ghost use Rattle.gw_addr.specs.Appending.{IsAppended};
ghost use Rattle.gw_policy_drafts.specs.beginning.Part.{first_of, has_prefix, has_station, host_of, is_numbered, last_of, number_text};
ghost use Rattle.gw_policy_drafts.specs.beginning.Part.{option_name, overlaps, prefix_text, udp_text, word_of};

use crate::migration::size_of;
use gw_addr::{Mask, put_decimal, put_octet};
use std::alloc::{AllocError, Global};

/// An option that says what a site has.
#[derive(Clone, Copy, Debug)]
pub enum SiteOption {
    /// A port: `10.1.0.2/24`, or `10.1.0.2/24:47809` at another UDP port than 47808, which any address may name.
    Port,
    /// Another broadcast manager that shares broadcasts with a port: `2=203.0.113.2/24`.
    Peer,
    /// The router before a network: `300=10.2.0.254`.
    Router,
    /// A station whose operators may write: `10.1.0.10`.
    Operator,
    /// The broadcast manager that the subnet of a port has already: `1=10.1.0.3`.
    Manager,
}

impl SiteOption {
    /// Its name, without the dashes.
    pub fn name(self) -> &'static str
        ensures { result.now ≡ option_name self }
    {
        match self {
            SiteOption::Port => "port",
            SiteOption::Peer => "peer",
            SiteOption::Router => "router",
            SiteOption::Operator => "operator",
            SiteOption::Manager => "bbmd",
        }
    }

    /// Whether a number comes first in its words, of a port or of a network.
    pub(crate) fn is_numbered(self) -> bool
        ensures { result ≡ is_numbered self }
    {
        matches!(
            self,
            SiteOption::Peer | SiteOption::Router | SiteOption::Manager
        )
    }

    /// Whether the length of a prefix comes last in its words.
    pub(crate) fn has_prefix(self) -> bool
        ensures { result ≡ has_prefix self }
    {
        matches!(self, SiteOption::Port | SiteOption::Peer)
    }
}

/// What a word says.
#[derive(Clone, Copy)]
pub struct SitePart {
    /// The number of a port or of a network, or 0 if its option has none.
    pub number: u16,
    /// The IPv4 address.
    pub ip: [u8; 4],
    /// How many bits of it are those of its subnet, or 32 if its option doesn't say.
    pub prefix: u8,
    /// The UDP port, if the word names one.
    pub udp: Option<u16>,
}

/// What comes before a sign, as a number, and what comes after it; or 0 if no number is to come.
fn number_before(is_numbered: bool, text: &str) -> Option<(u16, &str)> {
    if !is_numbered {
        return Some((0, text));
    }
    let (number, rest) = text.split_once('=')?;
    match number.parse::<u16>() {
        Ok(number) => Some((number, rest)),
        Err(_) => None,
    }
}

/// What comes before a slash, and what comes after it, as a number; or 32 if no number is to come.
fn prefix_after(has_prefix: bool, text: &str) -> Option<(&str, u8)> {
    if !has_prefix {
        return Some((text, 32));
    }
    let (front, prefix) = text.split_once('/')?;
    match prefix.parse::<u8>() {
        Ok(prefix) => Some((front, prefix)),
        Err(_) => None,
    }
}

/// What comes before a colon, and what comes after it, as a UDP port; or none if there is no colon.
fn udp_after(text: &str) -> Option<(&str, Option<u16>)> {
    let Some((front, udp)) = text.split_once(':') else {
        return Some((text, None));
    };
    match udp.parse::<u16>() {
        Ok(udp) if udp > 0 => Some((front, Some(udp))),
        Ok(_) | Err(_) => None,
    }
}

/// What a word may say.
fn read(option: SiteOption, text: &str) -> Option<SitePart> {
    let (number, rest) = number_before(option.is_numbered(), text)?;
    let (rest, udp) = udp_after(rest)?;
    let (front, prefix) = prefix_after(option.has_prefix(), rest)?;
    let ip = Mask::parse(front)?.octets;
    Some(SitePart {
        number,
        ip,
        prefix,
        udp,
    })
}

/// Appends the number of a part, and the sign after it.
fn put_number(out: &mut Vec<u8>, is_numbered: bool, number: u16) -> Result<(), AllocError>
    ensures { IsAppended (number_text is_numbered number) out.old out.new result }
{
    if !is_numbered {
        return Ok(());
    }
    put_decimal(out, number)?;
    put_octet(out, b'=')
}

/// Appends the prefix of a part, after a slash.
fn put_prefix(out: &mut Vec<u8>, has_prefix: bool, prefix: u8) -> Result<(), AllocError>
    ensures { IsAppended (prefix_text has_prefix prefix) out.old out.new result }
{
    if !has_prefix {
        return Ok(());
    }
    put_octet(out, b'/')?;
    put_decimal(out, prefix)
}

/// Appends a UDP port, after a colon.
fn put_udp(out: &mut Vec<u8>, udp: Option<u16>) -> Result<(), AllocError>
    ensures { IsAppended (udp_text udp) out.old out.new result }
{
    match udp {
        Some(udp) => {
            put_octet(out, b':')?;
            put_decimal(out, udp)
        }
        None => Ok(()),
    }
}

/// Appends the word that says a part.
#[tactic(auto, unfolding(crate::specs::beginning::Part::word_of))]
fn put_part(out: &mut Vec<u8>, option: SiteOption, part: SitePart) -> Result<(), AllocError>
    ensures { IsAppended (word_of option part) out.old out.new result }
{
    let octets = part.ip;
    put_number(out, option.is_numbered(), part.number)?;
    Mask { octets }.put_text(out)?;
    put_prefix(out, option.has_prefix(), part.prefix)?;
    put_udp(out, part.udp)
}

/// The word that says a part.
fn word_of(alloc: Global, option: SiteOption, part: SitePart) -> Result<Vec<u8>, AllocError>
    ensures { IfOk result (λ word. word.items ≡ word_of option part) }
{
    let mut word = Vec::new(alloc);
    put_part(&mut word, option, part)?;
    Ok(word)
}

/// What a word says: numbers without leading zeros, and an address as it is written. `None` if it says nothing.
pub(crate) fn part_in(
    alloc: Global,
    option: SiteOption,
    text: &str,
) -> Result<Option<SitePart>, AllocError>
    ensures { IfOk result (λ found. IfSome found (λ part. word_of option part ≡ text.now)) }
{
    let Some(part) = read(option, text) else {
        return Ok(None);
    };
    let word = word_of(alloc, option, part)?;
    Ok(if word.as_slice() == text.as_bytes() {
        Some(part)
    } else {
        None
    })
}

impl SitePart {
    /// Its address as a number.
    pub(crate) fn host(self) -> u64
        ensures host { result ≡ host_of self }
        ensures most { result < 2 ^ 32 }
    {
        u64::from(u32::from_be_bytes(self.ip))
    }

    /// The first address of its subnet.
    pub(crate) fn first(self) -> u64
        ensures first { result ≡ first_of self }
        ensures most { result < 2 ^ 32 }
    {
        self.host() - self.host() % size_of(self.prefix)
    }

    /// The last one, to which its broadcasts go.
    pub(crate) fn last(self) -> u64
        ensures { result ≡ last_of self }
    {
        self.first() + (size_of(self.prefix) - 1)
    }

    /// Whether the subnet has an address that a station may have.
    pub(crate) fn has_station(self, host: u64) -> bool
        ensures { result ≡ has_station host self }
    {
        self.first() < host && host < self.last()
    }

    /// Whether two subnets share an address.
    pub(crate) fn overlaps(self, other: SitePart) -> bool
        ensures { result ≡ overlaps self other }
    {
        self.first() <= other.last() && other.first() <= self.last()
    }
}
