//! Where an octet is in a text, sixteen octets at a time.

ghost use Rattle.std.specs.Prelude.{◌≡◌, ◌+◌, ◌≤◌, ◌==◌, not, length, MatchOption};
ghost use Rattle.std.specs.List.{prefix_len};
ghost use Rattle.std.specs.Simd.Lanes.{chunk};
ghost use Rattle.gw_addr.specs.Text.{Lacks};
ghost use Rattle.gw_script.specs.internal.Finding.{IsFirstAt};

use std::simd::prelude::*;

/// How many octets are looked at at once.
const LANES: usize = 16;

/// How many of the sixteen octets from a place on come before the first wanted one: sixteen where none of them is.
#[inline(always)]
fn octets_before(wanted: u8, text: &[u8], start: usize) -> usize
    requires { start + LANES ≤ length text.now }
    ensures { result ≡ prefix_len (λ octet. not (octet == wanted)) (chunk start LANES text.now) }
{
    let lanes = u8x16::from_slice(&text[start..]);
    let found = lanes.simd_eq(u8x16::splat(wanted)).to_bitmask();
    if found == 0 {
        LANES
    } else {
        found.trailing_zeros() as usize
    }
}

/// The place of the first wanted octet, if there is one.
#[inline(always)]
#[tactic(auto, using(crate::proofs::FindingLemmas::first_at, crate::proofs::FindingLemmas::lacks_block, crate::proofs::FindingLemmas::lacks_one_more))]
pub(crate) fn place_of(wanted: u8, text: &[u8]) -> Option<usize>
    ensures { MatchOption result (Lacks wanted text.now) (IsFirstAt wanted text.now) }
{
    let blocks = text.len() / LANES;
    for block in 0..blocks {
        let start = LANES * block;
        let before = octets_before(wanted, text, start);
        if before < LANES {
            return Some(start + before);
        }
    }
    for place in LANES * blocks..text.len() {
        if text[place] == wanted {
            return Some(place);
        }
    }
    None
}
