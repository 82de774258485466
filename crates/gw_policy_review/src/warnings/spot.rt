//! Places of addresses and masks in a configuration.
ghost use Rattle.std.specs.Prelude.{◌++◌, codes};
ghost use Rattle.gw_addr.specs.Appending.{IsAppended};
ghost use Rattle.gw_policy_review.specs.warnings.Warnings.{name_words, spot_words};
ghost use Rattle.gw_configuration.specs.Located.{numbered};

use gw_addr::{put_decimal, put_slice};
use gw_rules::RuleName;
use std::alloc::AllocError;

/// A key in the table of a port, of a peer of a port, or of a route. The numbers are positions,
/// from 0.
#[derive(Clone, Copy)]
pub(crate) enum Spot {
    /// The own address of this port.
    Address(usize),
    /// The broadcast address of this port.
    Broadcast(usize),
    /// The address of a peer.
    PeerAddress { port: usize, peer: usize },
    /// The mask of a peer.
    PeerMask { port: usize, peer: usize },
    /// The next router of this route.
    Next(usize),
}

/// Appends a word and the number of a position, from 1.
pub(crate) fn put_numbered(
    out: &mut Vec<u8>,
    word: &[u8],
    position: usize,
) -> Result<(), AllocError>
    ensures { IsAppended (numbered word.now position) out.old out.new result }
{
    put_slice(out, word)?;
    put_decimal(out, position as u128 + 1)
}

/// Appends the name of a set or a rule.
pub(crate) fn put_name(out: &mut Vec<u8>, name: &RuleName) -> Result<(), AllocError>
    ensures { IsAppended (name_words name.now) out.old out.new result }
{
    put_slice(out, b" \"")?;
    put_slice(out, name.as_str().as_bytes())?;
    put_slice(out, b"\": ")
}

/// Appends the place of a key in the table that a word and a position name.
fn put_key(out: &mut Vec<u8>, word: &[u8], position: usize, key: &[u8]) -> Result<(), AllocError>
    ensures { IsAppended (numbered word.now position ++ key.now) out.old out.new result }
{
    put_numbered(out, word, position)?;
    put_slice(out, key)
}

/// Appends the place of a key in the table of a peer of a port.
fn put_peer_key(out: &mut Vec<u8>, port: usize, peer: usize, key: &[u8]) -> Result<(), AllocError>
    ensures { IsAppended
        (numbered (codes "port ") port ++ numbered (codes ": peer ") peer ++ key.now)
        out.old out.new result }
{
    put_numbered(out, b"port ", port)?;
    put_numbered(out, b": peer ", peer)?;
    put_slice(out, key)
}

/// Appends a place, a colon after each of its parts.
pub(crate) fn put_spot(out: &mut Vec<u8>, spot: Spot) -> Result<(), AllocError>
    ensures { IsAppended (spot_words spot) out.old out.new result }
{
    match spot {
        Spot::Address(port) => put_key(out, b"port ", port, b": address: "),
        Spot::Broadcast(port) => put_key(out, b"port ", port, b": broadcast: "),
        Spot::PeerAddress { port, peer } => put_peer_key(out, port, peer, b": address: "),
        Spot::PeerMask { port, peer } => put_peer_key(out, port, peer, b": mask: "),
        Spot::Next(route) => put_key(out, b"route ", route, b": next: "),
    }
}
