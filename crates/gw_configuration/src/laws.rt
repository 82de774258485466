//! Laws of the limits, of the numbers that contracts cite, and of what appears twice. Each function does
//! nothing: its contract is the laws.

ghost use Rattle.std.specs.Prelude.{◌≡◌, ◌∷◌, []};
ghost use Rattle.gw_addr.specs.declared.bip.BipAddr.{BipAddr};
ghost use Rattle.gw_addr.specs.Address.{IsAddress, big_endian, octets_of};
ghost use Rattle.gw_rules.specs.Range.{holds};
ghost use Rattle.gw_configuration.specs.Configuration.{format_of};
ghost use Rattle.gw_configuration.specs.Subnet as spec;
ghost use Rattle.gw_configuration.specs.Subnet.{IsSubnet, keys_of, subnet_holds};
ghost use Rattle.gw_configuration.specs.Duplicates.{RepetitionsAreNamed};
ghost use Rattle.gw_configuration.specs.Shown.{IsShownWhole, ShowsNoneHidden, hidden, shown};
ghost use Rattle.gw_rules.specs.declared.format.Format.TheVariants.{One, Three, Two};

use crate::Subnet;
use crate::assertion::{MAX_ASSERTIONS, READING_SERVICES, WRITING_SERVICES};
use crate::instance::MAX_INSTANCE;
use crate::object::MAX_STATES;
use crate::parts::{MAX_OBJECTS, MAX_ROUTES};
use crate::port::MAX_PEERS;
use crate::stations::MAX_STATIONS;
use crate::text::MAX_TEXT;
use gw_addr::MAX_PORTS;

/// The limits are 8 ports, 64 peers of each, 16 subnets of each, 512 routes, 256 objects, 64 states of each, 512 assertions, 255
/// octets of a text, and the last instance, 4194302.
pub fn limits()
    ensures ports { MAX_PORTS ≡ 8 }
    ensures peers { MAX_PEERS ≡ 64 }
    ensures stations { MAX_STATIONS ≡ 16 }
    ensures routes { MAX_ROUTES ≡ 512 }
    ensures objects { MAX_OBJECTS ≡ 256 }
    ensures states { MAX_STATES ≡ 64 }
    ensures assertions { MAX_ASSERTIONS ≡ 512 }
    ensures text { MAX_TEXT ≡ 255 }
    ensures instance { MAX_INSTANCE ≡ 4194302 }
{}

/// The number 1 is the first format, 2 the second, 3 the third.
pub fn formats()
    ensures one { format_of 1 ≡ One }
    ensures two { format_of 2 ≡ Two }
    ensures three { format_of 3 ≡ Three }
{}

/// The services by which a device is read, and those by which it is written or changed, without an ask that says so.
pub fn services()
    ensures reading { READING_SERVICES ≡ 3 ∷ 4 ∷ 5 ∷ 6 ∷ 13 ∷ 26 ∷ 28 ∷ 29 ∷ 30 ∷ 33 ∷ [] }
    ensures writing { WRITING_SERVICES ≡ 0 ∷ 7 ∷ 8 ∷ 9 ∷ 10 ∷ 11 ∷ 16 ∷ 17 ∷ 18 ∷ 19 ∷ 20 ∷ 21 ∷ 22 ∷ 23 ∷ 27
        ∷ 260 ∷ 261 ∷ 262 ∷ 265 ∷ 266 ∷ 270 ∷ [] }
{}

/// Each value of the type has a prefix of at most 32 bits, and zeros after them in its network.
pub fn fits(subnet: Subnet)
    ensures { IsSubnet subnet }
{}

/// A subnet has an address exactly if the address's key is one of its keys.
#[tactic(auto, using(crate::proofs::Keys::holds_key))]
pub fn subnets()
    ensures { (s : spec.Subnet) (a : BipAddr) → IsSubnet s → IsAddress a →
        subnet_holds s a ≡ holds (big_endian (octets_of a)) (keys_of s) }
{}

/// A place where something appears for the second time is found exactly if something appears twice that
/// may appear only once.
#[tactic(auto, using(crate::proofs::Repeats::repetition_found))]
pub fn repetitions()
    ensures { RepetitionsAreNamed }
{}

/// What a line shows of a text has no character that a line doesn't show; a text without one is shown as it is.
/// U+009B, which begins a command to a terminal, and U+202E, which turns the direction of writing, are such
/// characters; the degree sign isn't.
#[tactic(auto, using(crate::proofs::Showing::shows_none_hidden, crate::proofs::Showing::shown_whole))]
pub fn showing()
    ensures none { ShowsNoneHidden }
    ensures whole { IsShownWhole }
    ensures command { hidden (194 ∷ 155 ∷ []) ≡ 2 }
    ensures turn { hidden (226 ∷ 128 ∷ 174 ∷ []) ≡ 3 }
    ensures degree { hidden (194 ∷ 176 ∷ []) ≡ 0 }
{}
