//! Laws of the definitions that the contracts cite. The functions change nothing and answer
//! nothing: their contracts are the laws.

ghost use Rattle.std.specs.Prelude.{◌≡◌, ◌↔◌, ◌+◌, ◌*◌, ◌≤◌, ◌<◌, ◌^◌, ℕ, List, None, Some, length};
ghost use Rattle.gw_addr.specs.declared.bip.BipAddr.{BipAddr};
ghost use Rattle.gw_addr.specs.Address.{octets_of, big_endian, text_of, IsAddress};
ghost use Rattle.gw_addr.specs.Reading.{AreOctets};
ghost use Rattle.gw_addr.specs.Station.{key48, key_of, station_at};

use crate::MAX_PORTS;
use crate::bip::BipAddr;

/// The limit is 8 ports.
pub fn limits()
    ensures { MAX_PORTS ≡ 8 }
{}

/// Each value of the type has four octets and a port.
pub fn fits(address: BipAddr)
    ensures { IsAddress address }
{}

/// No two addresses have the same octets, or one key, or are written alike; and a key is below 2 to
/// the power of 48 (Annex J.1.2).
pub fn one_to_one()
    ensures octets { (a b : BipAddr) → IsAddress a → IsAddress b
        → octets_of a ≡ octets_of b → a ≡ b }
    ensures keys { (a b : BipAddr) → IsAddress a → IsAddress b
        → big_endian (octets_of a) ≡ big_endian (octets_of b) → a ≡ b }
    ensures below { (a : BipAddr) → IsAddress a → big_endian (octets_of a) < 2 ^ 48 }
    ensures texts { (a b : BipAddr) → IsAddress a → IsAddress b
        → text_of a ≡ text_of b → a ≡ b }
{}

/// Each station of one to seven octets has one key, and each key at most one station. The key of six octets
/// is their number, below 2 to the power of 48; that of others is at least 2 to the power of 56, and the keys
/// of so many octets begin at so many times that (clause 6.2.2).
pub fn keys()
    ensures station { (octets : List ℕ) (key : ℕ) → AreOctets octets → key < 2 ^ 64 →
        (key_of octets ≡ Some key) ↔ (station_at key ≡ Some octets) }
    ensures six { (octets : List ℕ) (key : ℕ) → key48 octets ≡ Some key → key_of octets ≡ Some key }
    ensures below { (octets : List ℕ) (key : ℕ) → AreOctets octets → key48 octets ≡ Some key →
        key < 2 ^ 48 }
    ensures others { (octets : List ℕ) (key : ℕ) → AreOctets octets → (key48 octets ≡ None) →
        key_of octets ≡ Some key →
        (length octets * 2 ^ 56 ≤ key) × (key < length octets * 2 ^ 56 + 2 ^ 56) }
{}
