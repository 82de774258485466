//! Laws of the messages and their octets (Annex J.2). The functions change nothing and answer
//! nothing: their contracts are the laws.

ghost use Rattle.std.specs.Prelude.{◌≡◌, ◌↔◌, ◌<◌, ◌^◌, ℕ, List, Ok};
ghost use Rattle.gw_addr.specs.Reading.{AreOctets};
ghost use Rattle.gw_frames.specs.bvll.Bvll.{Message, view, encoding, HasFields, IsValid, IsBvll};
ghost use Rattle.gw_frames.specs.bvll.Reading.{bvll_at};

use crate::bvll::MAX_LEN;
use crate::bvll::message::Bvll;

/// A message has at most 1507 octets: an NPDU of 1497 after the ten of a Forwarded-NPDU.
pub fn limits()
    ensures { MAX_LEN ≡ 1507 }
{}

/// What the reading function answers is what `IsBvll` says, and nothing else.
pub fn read_as()
    ensures { (octets : List ℕ) (m : Message) → AreOctets octets
        → (bvll_at octets ≡ Ok m) ↔ IsBvll octets m }
{}

/// What is written is read again, and two messages never have the same octets.
pub fn one_to_one()
    ensures again { (m : Message) → IsValid m → bvll_at (encoding m) ≡ Ok m }
    ensures unique { (m n : Message) → IsValid m → IsValid n → encoding m ≡ encoding n → m ≡ n }
{}

/// The fields of each value of the type fit their octets.
pub fn fields(message: &Bvll<'_>)
    ensures { HasFields (view message.now) }
{
    match message {
        Bvll::Result(code) => number(code.0),
        Bvll::WriteBdt(entries) | Bvll::ReadBdtAck(entries) => {
            let _octets = entries.as_octets();
        }
        Bvll::ReadFdtAck(entries) => {
            let _octets = entries.as_octets();
        }
        Bvll::ReadBdt | Bvll::ReadFdt => {}
        Bvll::Register { time_to_live } => number(*time_to_live),
        Bvll::Delete(address) => gw_addr::laws::fits(*address),
        Bvll::Forwarded { originator, npdu } => {
            gw_addr::laws::fits(*originator);
            octets(npdu);
        }
        Bvll::Distribute(npdu) | Bvll::OriginalUnicast(npdu) | Bvll::OriginalBroadcast(npdu) => {
            octets(npdu)
        }
    }
}

/// A number of two octets.
fn number(number: u16)
    ensures { number < 2 ^ 16 }
{}

/// Octets lent are octets.
fn octets(octets: &[u8])
    ensures { AreOctets octets.now }
{
    let _len = octets.len();
}
