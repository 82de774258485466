//! Subnets of IPv4, as far as an own and a broadcast address show them, and masks.
ghost use Rattle.std.specs.Prelude.{◌≡◌, ◌<◌, ◌^◌, ◌==◌, ◌&&◌};
ghost use Rattle.std.specs.List.{list_any};
ghost use Rattle.gw_policy_review.specs.warnings.Subnet.{has_holes, is_beside, is_broadcast_for, is_elsewhere, is_limited, is_multicast};
ghost use Rattle.gw_policy_review.specs.warnings.Subnet.{is_off_subnet, is_subnet, number_of, sizes};

use gw_addr::BipAddr;

/// The first octet of the least and of the greatest multicast address.
const MULTICAST_LOW: u8 = 224;

const MULTICAST_HIGH: u8 = 239;

/// How many addresses IPv4 has.
const ADDRESSES: u64 = 4_294_967_296;

/// The last address of all, as a number.
const LIMITED_BROADCAST: u64 = 4_294_967_295;

/// How many addresses a subnet has at least: of two, none is a broadcast address.
const FEWEST: u64 = 4;

/// How many addresses a subnet may have.
const SIZES: [u64; 33] = [
    1,
    2,
    4,
    8,
    16,
    32,
    64,
    128,
    256,
    512,
    1024,
    2048,
    4096,
    8192,
    16384,
    32768,
    65536,
    131_072,
    262_144,
    524_288,
    1_048_576,
    2_097_152,
    4_194_304,
    8_388_608,
    16_777_216,
    33_554_432,
    67_108_864,
    134_217_728,
    268_435_456,
    536_870_912,
    1_073_741_824,
    2_147_483_648,
    4_294_967_296,
];

/// Whether it is an address of many at once.
pub(crate) fn is_multicast(address: BipAddr) -> bool
    ensures { result ≡ is_multicast address }
{
    let [first, _, _, _] = address.ip;
    MULTICAST_LOW <= first && first <= MULTICAST_HIGH
}

/// Whether it is 255.255.255.255, which broadcasts on whatever network a datagram goes out (RFC 919).
pub(crate) fn is_limited(address: BipAddr) -> bool
    ensures { result ≡ is_limited address }
{
    number_of(address.ip) == LIMITED_BROADCAST
}

#[tactic(auto, unfolding(crate::specs::warnings::Subnet::sizes))]
fn sizes() -> [u64; 33]
    ensures { result ≡ sizes }
{
    SIZES
}

/// Four octets as one number, the first of them the highest.
pub(crate) fn number_of(octets: [u8; 4]) -> u64
    ensures number { result ≡ number_of octets }
    ensures below { result < 2 ^ 32 }
{
    u64::from(u32::from_be_bytes(octets))
}

/// Whether a subnet of so many addresses holds this one and has that broadcast address.
fn is_subnet(address: u64, last: u64, size: u64) -> bool
    ensures { result ≡ is_subnet address last size }
{
    FEWEST <= size && address / size == last / size && last % size + 1 == size
}

fn is_broadcast_of(own: u64, last: u64) -> bool
    ensures { result ≡ list_any (is_subnet own last) sizes }
{
    sizes().iter().any(|size| is_subnet(own, last, *size))
}

fn is_beside(own: u64, last: u64, other: u64) -> bool
    ensures { result
        ≡ list_any (λ size. is_subnet own last size && is_subnet other last size) sizes }
{
    sizes().iter().any(|size| is_subnet(own, last, *size) && is_subnet(other, last, *size))
}

/// Whether no subnet that holds the own address has this broadcast address.
pub(crate) fn is_off_subnet(own: BipAddr, broadcast: BipAddr) -> bool
    ensures { result ≡ is_off_subnet own broadcast }
{
    !is_broadcast_of(number_of(own.ip), number_of(broadcast.ip))
}

/// Whether an address is in none of the subnets that hold the own address and have this broadcast
/// address. Where there is no such subnet, nothing is said of it.
pub(crate) fn is_elsewhere(own: BipAddr, broadcast: BipAddr, other: BipAddr) -> bool
    ensures { result ≡ is_elsewhere own broadcast other }
{
    !is_off_subnet(own, broadcast) && !has_beside(own, broadcast, other)
}

/// Whether some subnet holds the own address and another one, and has this broadcast address.
pub(crate) fn has_beside(own: BipAddr, broadcast: BipAddr, other: BipAddr) -> bool
    ensures { result ≡ is_beside own broadcast other }
{
    is_beside(
        number_of(own.ip),
        number_of(broadcast.ip),
        number_of(other.ip),
    )
}

/// Whether a mask isn't ones and then zeros.
pub(crate) fn has_holes(mask: [u8; 4]) -> bool
    ensures { result ≡ has_holes mask }
{
    !is_size(ADDRESSES - number_of(mask))
}

fn is_size(number: u64) -> bool
    ensures { result ≡ list_any (λ size. number == size) sizes }
{
    sizes().iter().any(|size| number == *size)
}
