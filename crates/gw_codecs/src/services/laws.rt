//! Laws of the definitions that the contracts cite. The functions change nothing and answer nothing:
//! their contracts are the laws.

ghost use Rattle.std.specs.Prelude.{◌≡◌, ◌≤◌, ◌<◌, ◌∷◌, ◌^◌, ℕ, List, length, IfSome};
ghost use Rattle.gw_codecs.specs.tags.List.{IsBalanced, deepest};
ghost use Rattle.gw_codecs.specs.services.Limits.{last_instance, last_number, last_priority, last_property, last_segmentation, last_short_number};
ghost use Rattle.gw_codecs.specs.services.Body.{HasFault};
ghost use Rattle.gw_codecs.specs.services.Laws.{HasOneReading, ReadsExactly, TellsExactly};
ghost use Rattle.gw_codecs.specs.services.MultiReading.{multi_at};
ghost use Rattle.gw_codecs.specs.services.Read.{IsRead, read_at, read_body, read_view, read_encoding};
ghost use Rattle.gw_codecs.specs.services.Write.{IsWrite, write_at, write_body, write_view, write_encoding};
ghost use Rattle.gw_codecs.specs.services.Multi.{Reference, HasMultiFault, IsMulti, most_references, multi_encoding};
ghost use Rattle.gw_codecs.specs.services.WhoIs.{IsWhoIs, who_is_at, who_is_body, who_is_view, who_is_encoding};
ghost use Rattle.gw_codecs.specs.services.WhoHas.{IsWhoHas, who_has_at, who_has_body, who_has_view, who_has_encoding, sought_view, NameFits};
ghost use Rattle.gw_codecs.specs.services.IAm.{IsIAm, i_am_at, i_am_body, i_am_view, i_am_encoding};
ghost use Rattle.gw_codecs.specs.services.IHave.{IsIHave, i_have_at, i_have_body, i_have_view, i_have_encoding};

use crate::services::discovery::{IAm, IHave, WhoHas, WhoIs};
use crate::services::request::{ReadReq, WriteReq};

/// The limits are 128 references of one body, which is our own, and the last values of the standard's
/// types.
pub fn limits()
    ensures references { most_references ≡ 128 }
    ensures property { last_property ≡ 4194303 }
    ensures instance { last_instance ≡ 4194303 }
    ensures number { last_number ≡ 4294967295 }
    ensures short_number { last_short_number ≡ 65535 }
    ensures priority { last_priority ≡ 16 }
    ensures segmentation { last_segmentation ≡ 3 }
{}

/// What each reading function gives of octets is the body that they are.
pub fn reading()
    ensures read { ReadsExactly read_at IsRead }
    ensures write { ReadsExactly write_at IsWrite }
    ensures multi { ReadsExactly multi_at IsMulti }
    ensures who_is { ReadsExactly who_is_at IsWhoIs }
    ensures who_has { ReadsExactly who_has_at IsWhoHas }
    ensures i_am { ReadsExactly i_am_at IsIAm }
    ensures i_have { ReadsExactly i_have_at IsIHave }
{}

/// What each of them gives of octets that are no such body is the fault that they have.
pub fn faults()
    ensures read { TellsExactly read_at (λ fault octets. HasFault fault read_body octets) }
    ensures write { TellsExactly write_at (λ fault octets. HasFault fault write_body octets) }
    ensures multi { TellsExactly multi_at HasMultiFault }
    ensures who_is { TellsExactly who_is_at (λ fault octets. HasFault fault who_is_body octets) }
    ensures who_has { TellsExactly who_has_at (λ fault octets. HasFault fault who_has_body octets) }
    ensures i_am { TellsExactly i_am_at (λ fault octets. HasFault fault i_am_body octets) }
    ensures i_have { TellsExactly i_have_at (λ fault octets. HasFault fault i_have_body octets) }
{}

/// The body of one ReadProperty has one reading.
pub fn one_read()
    ensures { HasOneReading IsRead }
{}

/// The body of one WriteProperty has one reading.
pub fn one_write()
    ensures { HasOneReading IsWrite }
{}

/// The body of one ReadPropertyMultiple has one reading.
pub fn one_multi()
    ensures { HasOneReading IsMulti }
{}

/// The body of one Who-Is has one reading.
pub fn one_who_is()
    ensures { HasOneReading IsWhoIs }
{}

/// The body of one Who-Has has one reading.
pub fn one_who_has()
    ensures { HasOneReading IsWhoHas }
{}

/// The body of one I-Am has one reading.
pub fn one_i_am()
    ensures { HasOneReading IsIAm }
{}

/// The body of one I-Have has one reading.
pub fn one_i_have()
    ensures { HasOneReading IsIHave }
{}

fn index_fits(index: Option<u32>)
    ensures { IfSome index (λ n. n ≤ last_number) }
{
    if let Some(index) = index {
        let _index = index;
    }
}

fn short_fits(number: u16)
    ensures { number ≤ last_short_number }
{
    let _number = number;
}

/// What is written of a ReadProperty request is its body, so it is read again.
pub fn read_encoded(request: &ReadReq)
    ensures { let r = read_view request.now in IsRead (read_encoding r) r }
{
    index_fits(request.index);
}

/// What is written of a WriteProperty request is its body, where the tags of its value are balanced.
pub fn write_encoded(request: &WriteReq<'_>)
    ensures { let w = write_view request.now in
        IsBalanced deepest request.now.value.now → IsWrite (write_encoding w) w }
{
    index_fits(request.index);
}

/// What is written of a ReadPropertyMultiple request that octets are is its body.
pub fn multi_encoded()
    ensures { (octets : List ℕ) (rs : List Reference) → IsMulti octets rs
        → IsMulti (multi_encoding rs) rs }
{}

/// What is written of a Who-Is request is its body.
pub fn who_is_encoded(request: &WhoIs)
    ensures { let w = who_is_view request.now in IsWhoIs (who_is_encoding w) w }
{}

/// What is written of a Who-Has request is its body.
pub fn who_has_encoded(request: &WhoHas<'_>)
    ensures { let w = who_has_view request.now in
        NameFits (sought_view request.now.sought) → IsWhoHas (who_has_encoding w) w }
{}

/// What is written of an I-Am is its body.
pub fn i_am_encoded(announced: &IAm)
    ensures { let i = i_am_view announced.now in IsIAm (i_am_encoding i) i }
{
    short_fits(announced.max_apdu);
    short_fits(announced.vendor);
}

/// What is written of an I-Have is its body.
pub fn i_have_encoded(announced: &IHave<'_>)
    ensures { let i = i_have_view announced.now in
        length (announced.now.name.charset ∷ announced.now.name.octets.now) < 2 ^ 32
        → IsIHave (i_have_encoding i) i }
{}
