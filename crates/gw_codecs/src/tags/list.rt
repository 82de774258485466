//! Lists of tagged values between an opening and a closing tag (clause 20.2.1.3.2).

ghost use Rattle.std.specs.Prelude.{◌≡◌, ◌≤◌, ℕ, List, length, IfSome, IsSomeAnd, if◌then◌else◌};
ghost use Rattle.std.specs.Option.{option_map};
ghost use Rattle.gw_codecs.specs.tags.List.{EndsList};
ghost use Rattle.gw_codecs.specs.tags.Walk.{closing_at, element_at, list_at, stepped, value};
ghost use Rattle.gw_codecs.specs.tags.internal.Element.{element_view};

use crate::tags::element::Element;
use crate::tags::fault::TagFault;
use crate::tags::reading::read_tag;
use crate::tags::tag::Kind;
use gw_addr::front;

/// How deep lists may nest inside a list: our own limit.
const DEEPEST: u8 = 16;

/// The octets after a value's content. A Boolean of application class has none.
fn behind_content(is_boolean: bool, count: u32, octets: &[u8]) -> Option<&[u8]>
    ensures { option_map (λ x. value x.now) result
        ≡ stepped (if is_boolean then Some 0 else Some count) octets.now }
{
    let count = if is_boolean { 0 } else { count as usize };
    let (_, rest) = front(TagFault::Short, count, octets).ok()?;
    Some(rest)
}

/// What is at the front, and the octets after it.
fn element(octets: &[u8]) -> Option<Element<'_>>
    ensures { option_map element_view result ≡ element_at octets.now }
{
    let header = read_tag(octets).ok()?;
    let number = header.tag.number;
    match header.tag.kind {
        Kind::Opening => Some(Element::Opened(number, header.rest)),
        Kind::Closing => Some(Element::Closed(number, header.rest)),
        Kind::Length(count) => {
            let is_boolean = !header.tag.context && number == 1;
            let rest = behind_content(is_boolean, count, header.rest)?;
            Some(Element::Value(rest))
        }
    }
}

/// The octets from the closing tag of the list on, and those after it. Each step takes at least an
/// octet.
fn close(fuel: usize, depth: u8, number: u8, octets: &[u8]) -> Option<(&[u8], &[u8])>
    ensures { option_map (λ x. (x.0.now, x.1.now)) result
        ≡ closing_at fuel depth number octets.now }
{
    let mut rest = octets;
    for done in 0..fuel {
        let Some(found) = element(rest) else {
            return None;
        };
        match found {
            Element::Value(behind) => rest = behind,
            Element::Opened(_, _) if depth == 0 => return None,
            Element::Opened(inner, behind) => {
                let Some((_, further)) = close(fuel - done - 1, depth - 1, inner, behind) else {
                    return None;
                };
                rest = further;
            }
            Element::Closed(closed, behind) => {
                return if closed == number {
                    Some((rest, behind))
                } else {
                    None
                };
            }
        }
    }
    None
}

/// The content and the octets after the closing tag, by the walk alone.
fn list(number: u8, octets: &[u8]) -> Option<(&[u8], &[u8])>
    ensures { option_map (λ x. (x.0.now, x.1.now)) result ≡ list_at number octets.now }
{
    let (closing, rest) = close(octets.len(), DEEPEST, number, octets)?;
    Some((&octets[..octets.len() - closing.len()], rest))
}

/// Reads a list after its opening tag: the octets before its closing tag of the same number, which
/// are balanced, and those after it. Lists nest at most 16 deep inside it, which is our own limit.
/// `None` if no such content and closing tag are at the front. A content is stepped over and
/// not looked at.
pub fn read_list(number: u8, octets: &[u8]) -> Option<(&[u8], &[u8])>
    // What is read is a balanced content and its closing tag.
    ensures found { IfSome result (λ x. EndsList number octets.now x.0.now x.1.now) }
    // If such octets are at the front, they are read.
    ensures only { (content rest : List ℕ) → EndsList number octets.now content rest
        → IsSomeAnd result (λ x. (x.0.now ≡ content) × (x.1.now ≡ rest)) }

    ensures exact { option_map (λ x. (x.0.now, x.1.now)) result ≡ list_at number octets.now }
{
    list(number, octets)
}
