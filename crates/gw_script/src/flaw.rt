//! What is wrong with a line that writes no event.

ghost use Rattle.std.specs.Prelude.{◌≡◌, ◌≤◌, ◌∷◌, ◌++◌, ◌↔◌, ℕ, List, length, IfSome, IsNone, IsTrue};
ghost use Rattle.gw_addr.specs.declared.TheConstants.{MAX_PORTS};
ghost use Rattle.gw_addr.specs.declared.bip.BipAddr.{BipAddr};
ghost use Rattle.gw_addr.specs.Address.{IsAddress, text_of};
ghost use Rattle.gw_script.specs.Event.{Event};
ghost use Rattle.gw_script.specs.Flaw.{EndsWithReturn, IsFlaw};
ghost use Rattle.gw_script.specs.Script.{IsLine};

use crate::line::{address_of, port_of, split_at_space};

/// What is wrong with a line that writes no event. Each says that nothing before it is wrong, so a line
/// has one.
#[derive(Clone, Copy)]
pub enum LineFlaw {
    /// It has more than 4096 octets without its line feed.
    Long,
    /// It ends with a carriage return.
    CarriageReturn,
    /// It isn't `tick`, and doesn't begin with a character and a space.
    Form,
    /// Its first character is the digit of no port.
    Port,
    /// No address with a space after it follows its port.
    Address,
    /// Its octets have an odd number of digits.
    OddDigits,
    /// Its octets have an even number of digits, and are no pairs of digits.
    Digits,
}

/// Whether a line ends with a carriage return.
fn ends_with_return(line: &[u8]) -> bool
    ensures { IsTrue result ↔ EndsWithReturn line.now }
{
    !line.is_empty() && line[line.len() - 1] == b'\r'
}

/// The first character of a line, and what follows the space after it.
fn split_first(line: &[u8]) -> Option<(u8, &[u8])>
    ensures found { IfSome result (λ x. line.now ≡ x.0 ∷ 32 ∷ x.1.now) }
    ensures only { IsNone result → (first : ℕ) (rest : List ℕ) → ¬ (line.now ≡ first ∷ 32 ∷ rest) }
{
    let [first, b' ', rest @ ..] = line else {
        return None;
    };
    Some((*first, rest))
}

/// What follows an address and a space, if what a line has after its port begins with these.
fn behind_address(rest: &[u8]) -> Option<&[u8]>
    ensures found { IfSome result (λ text. (from : BipAddr) × IsAddress from × (rest.now ≡ text_of from ++ 32 ∷ text.now)) }
    ensures only { IsNone result → (from : BipAddr) (written : List ℕ) → IsAddress from →
        ¬ (rest.now ≡ text_of from ++ 32 ∷ written) }
{
    let (address, text) = split_at_space(rest)?;
    address_of(address)?;
    Some(text)
}

/// What is wrong with a line of at most 4096 octets that writes no event: the first that is, in the
/// order of [`LineFlaw`].
pub fn flaw_of(ports: u8, line: &[u8]) -> LineFlaw
    requires ports { ports ≤ MAX_PORTS }
    requires most { length line.now ≤ 4096 }
    requires no_event { (e : Event) → ¬ (IsLine ports line.now e) }
    ensures { IsFlaw ports line.now result }
{
    if ends_with_return(line) {
        return LineFlaw::CarriageReturn;
    }
    let Some((first, rest)) = split_first(line) else {
        return LineFlaw::Form;
    };
    if port_of(ports, first).is_none() {
        return LineFlaw::Port;
    }
    match behind_address(rest) {
        None => LineFlaw::Address,
        Some(text) if text.len() % 2 != 0 => LineFlaw::OddDigits,
        Some(_) => LineFlaw::Digits,
    }
}
