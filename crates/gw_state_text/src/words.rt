//! The words of a line, read one after the other from its front.

ghost use Rattle.std.specs.Prelude.{◌≡◌, ◌<◌, ◌≤◌, ◌^◌, ◌==◌, ◌++◌, ◌∷◌, ℕ, List, Some, length, position, IfSome};
ghost use Rattle.std.specs.Char.{IsAsciiDigit};
ghost use Rattle.std.specs.Fmt.{decimal};
ghost use Rattle.std.specs.Option.{IsSomeAnd};
ghost use Rattle.gw_addr.specs.Address.{IsAddress, text_of};
ghost use Rattle.gw_addr.specs.Mask.{IsMask, mask_text};
ghost use Rattle.gw_addr.specs.Text.{Lacks};
ghost use Rattle.gw_state_text.specs.Words.{Finds, address_to, after_word, mask_to, network_to, number_in, number_to, parted_at, small_to};

use gw_addr::{BipAddr, Mask, NetNum};
use itoa::Buffer;

/// What comes after a word.
#[tactic(auto, unfolding(crate::specs::Words::after_word))]
pub(crate) fn after_word<'a>(word: &[u8], text: &'a [u8]) -> Option<&'a [u8]>
    ensures found { IfSome result (λ rest. text.now ≡ word.now ++ rest.now) }
    ensures only { (rest : List ℕ) → text.now ≡ word.now ++ rest → IsSomeAnd result (λ x. x.now ≡ rest) }
    ensures exact { Finds (λ rest. rest.now) result (after_word word.now text.now) }
{
    text.strip_prefix(word)
}

/// The place of the first such character.
fn place_of(c: u8, text: &[u8]) -> Option<usize>
    ensures place { result ≡ position (λ x. x == c) text.now }
    ensures within { IfSome result (λ place. place < length text.now) }
{
    text.iter().position(|x| *x == c)
}

/// What comes before the first such character, and what comes after it.
#[tactic(auto, unfolding(crate::specs::Words::parted_at))]
pub(crate) fn parted_at(c: u8, text: &[u8]) -> Option<(&[u8], &[u8])>
    ensures found { IfSome result (λ x. text.now ≡ x.0.now ++ c ∷ x.1.now) }
    ensures only { (word rest : List ℕ) → Lacks c word → text.now ≡ word ++ c ∷ rest
        → IsSomeAnd result (λ x. (x.0.now ≡ word) × (x.1.now ≡ rest)) }
    ensures exact { Finds (λ x. (x.0.now, x.1.now)) result (parted_at c text.now) }
{
    match place_of(c, text) {
        Some(place) => Some((&text[..place], &text[place + 1..])),
        None => None,
    }
}

/// The number of 64 bits that a text is in decimal digits without leading zeros.
fn number_in(text: &[u8]) -> Option<u64>
    ensures { result ≡ number_in text.now }
{
    let Ok(digits) = str::from_utf8(text) else {
        return None;
    };
    let Ok(number) = digits.parse::<u64>() else {
        return None;
    };
    let mut buffer = Buffer::new();
    if buffer.format(number).as_bytes() == text {
        Some(number)
    } else {
        None
    }
}

/// A number up to such a character, and what comes after it.
#[tactic(auto, unfolding(crate::specs::Words::number_to))]
pub(crate) fn number_to(c: u8, text: &[u8]) -> Option<(u64, &[u8])>
    requires { ¬ IsAsciiDigit c }
    ensures found { IfSome result (λ x. text.now ≡ decimal x.0 ++ c ∷ x.1.now) }
    ensures only { (n : ℕ) (rest : List ℕ) → n < 2 ^ 64 → text.now ≡ decimal n ++ c ∷ rest
        → IsSomeAnd result (λ x. (x.0 ≡ n) × (x.1.now ≡ rest)) }
    ensures exact { Finds (λ x. (x.0, x.1.now)) result (number_to c text.now) }
{
    let (word, rest) = parted_at(c, text)?;
    let number = number_in(word)?;
    Some((number, rest))
}

/// A number of 16 bits up to such a character, and what comes after it.
#[tactic(auto, unfolding(crate::specs::Words::small_to))]
pub(crate) fn short_to(c: u8, text: &[u8]) -> Option<(u16, &[u8])>
    requires { ¬ IsAsciiDigit c }
    ensures found { IfSome result (λ x. text.now ≡ decimal x.0 ++ c ∷ x.1.now) }
    ensures only { (n : ℕ) (rest : List ℕ) → n < 2 ^ 16 → text.now ≡ decimal n ++ c ∷ rest
        → IsSomeAnd result (λ x. (x.0 ≡ n) × (x.1.now ≡ rest)) }
    ensures exact { Finds (λ x. (x.0, x.1.now)) result (small_to (2 ^ 16) c text.now) }
{
    let (number, rest) = number_to(c, text)?;
    let number = u16::try_from(number).ok()?;
    Some((number, rest))
}

/// A number of 32 bits up to such a character, and what comes after it.
#[tactic(auto, unfolding(crate::specs::Words::small_to))]
pub(crate) fn long_to(c: u8, text: &[u8]) -> Option<(u32, &[u8])>
    requires { ¬ IsAsciiDigit c }
    ensures found { IfSome result (λ x. text.now ≡ decimal x.0 ++ c ∷ x.1.now) }
    ensures only { (n : ℕ) (rest : List ℕ) → n < 2 ^ 32 → text.now ≡ decimal n ++ c ∷ rest
        → IsSomeAnd result (λ x. (x.0 ≡ n) × (x.1.now ≡ rest)) }
    ensures exact { Finds (λ x. (x.0, x.1.now)) result (small_to (2 ^ 32) c text.now) }
{
    let (number, rest) = number_to(c, text)?;
    let number = u32::try_from(number).ok()?;
    Some((number, rest))
}

/// A number of 8 bits up to such a character, and what comes after it.
#[tactic(auto, unfolding(crate::specs::Words::small_to))]
pub(crate) fn octet_to(c: u8, text: &[u8]) -> Option<(u8, &[u8])>
    requires { ¬ IsAsciiDigit c }
    ensures found { IfSome result (λ x. text.now ≡ decimal x.0 ++ c ∷ x.1.now) }
    ensures only { (n : ℕ) (rest : List ℕ) → n < 2 ^ 8 → text.now ≡ decimal n ++ c ∷ rest
        → IsSomeAnd result (λ x. (x.0 ≡ n) × (x.1.now ≡ rest)) }
    ensures exact { Finds (λ x. (x.0, x.1.now)) result (small_to (2 ^ 8) c text.now) }
{
    let (number, rest) = number_to(c, text)?;
    let number = u8::try_from(number).ok()?;
    Some((number, rest))
}

/// A network's number up to a space, and what comes after it.
#[tactic(auto, unfolding(crate::specs::Words::network_to))]
pub(crate) fn network_to(text: &[u8]) -> Option<(NetNum, &[u8])>
    ensures found { IfSome result (λ x. text.now ≡ decimal x.0 ++ 32 ∷ x.1.now) }
    ensures only { (n : ℕ) (rest : List ℕ) → (1 ≤ n) × (n ≤ 65534) → text.now ≡ decimal n ++ 32 ∷ rest
        → IsSomeAnd result (λ x. (x.0 ≡ n) × (x.1.now ≡ rest)) }
    ensures exact { Finds (λ x. (x.0, x.1.now)) result (network_to text.now) }
{
    let (number, rest) = short_to(b' ', text)?;
    let network = NetNum::new(number)?;
    Some((network, rest))
}

/// The address that a text is.
fn address_in(text: &[u8]) -> Option<BipAddr>
    ensures found { IfSome result (λ a. text.now ≡ text_of a) }
    ensures is { IfSome result (λ a. IsAddress a) }
    ensures only { (a : BipAddr) → IsAddress a → text.now ≡ text_of a → result ≡ Some a }
{
    match BipAddr::parse_octets(text) {
        Ok(address) => Some(address),
        Err(_) => None,
    }
}

/// An address up to a space or a line feed, and what comes after it.
#[tactic(auto, unfolding(crate::specs::Words::address_to))]
pub(crate) fn address_to(c: u8, text: &[u8]) -> Option<(BipAddr, &[u8])>
    requires { c ≤ 32 }
    ensures found { IfSome result (λ x. text.now ≡ text_of x.0 ++ c ∷ x.1.now) }
    ensures is { IfSome result (λ x. IsAddress x.0) }
    ensures only { (a : BipAddr) (rest : List ℕ) → IsAddress a → text.now ≡ text_of a ++ c ∷ rest
        → IsSomeAnd result (λ x. (x.0 ≡ a) × (x.1.now ≡ rest)) }
    ensures exact { Finds (λ x. (x.0, x.1.now)) result (address_to c text.now) }
{
    let (word, rest) = parted_at(c, text)?;
    let Some(address) = address_in(word) else {
        return None;
    };
    Some((address, rest))
}

/// The mask that a text is.
fn mask_in(text: &[u8]) -> Option<Mask>
    ensures found { IfSome result (λ m. text.now ≡ mask_text m) }
    ensures is { IfSome result (λ m. IsMask m) }
    ensures only { (m : Mask) → IsMask m → text.now ≡ mask_text m → result ≡ Some m }
{
    let Ok(text) = str::from_utf8(text) else {
        return None;
    };
    let mask = Mask::parse(text)?;
    Some(mask)
}

/// A mask up to the line feed, and what comes after it.
#[tactic(auto, unfolding(crate::specs::Words::mask_to))]
pub(crate) fn mask_to(text: &[u8]) -> Option<(Mask, &[u8])>
    ensures found { IfSome result (λ x. text.now ≡ mask_text x.0 ++ 10 ∷ x.1.now) }
    ensures is { IfSome result (λ x. IsMask x.0) }
    ensures only { (m : Mask) (rest : List ℕ) → IsMask m → text.now ≡ mask_text m ++ 10 ∷ rest
        → IsSomeAnd result (λ x. (x.0 ≡ m) × (x.1.now ≡ rest)) }
    ensures exact { Finds (λ x. (x.0, x.1.now)) result (mask_to text.now) }
{
    let (word, rest) = parted_at(b'\n', text)?;
    let Some(mask) = mask_in(word) else {
        return None;
    };
    Some((mask, rest))
}
