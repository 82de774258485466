//! The name that a text may be meant as.
ghost use Rattle.std.specs.Prelude.{◌≡◌, ◌++◌, codes, IfOk, OnOk, option_map};
ghost use Rattle.gw_policy_text.specs.faults.Near.{edits, is_near, meant, meant_within, name_of, near_words, nearer, nearer_of, nearest, noun_of};

use gw_codecs::names::{object_type_name, property_name, service_name};
use gw_configuration::Names;
use std::alloc::{AllocError, Global};
use strsim::levenshtein;

/// The numbers of all names are below this one.
const NUMBERS: u64 = 1032;
/// With how many edits a name may be meant.
const MAX_EDITS: usize = 3;

/// A name, and how many characters are put in, left out or changed from a text to it.
type Near = Option<(usize, &'static str)>;

/// What has such a name.
pub(crate) fn noun_of(names: Names) -> &'static str
    ensures { result.now ≡ noun_of names }
{
    match names {
        Names::Services => "service",
        Names::ObjectTypes => "object type",
        Names::Properties => "property",
    }
}

/// Puts the name that a text may be meant as, if there is one. `AllocError` where memory was refused.
pub(crate) fn put_near(line: &mut Vec<u8>, names: Names, text: &str) -> Result<(), AllocError>
    ensures { OnOk result (line.new.items ≡ line.old.items ++ near_words names text.now) }
{
    let best = nearest(*line.allocator(), names, text)?;
    put_meant(line, text, best)
}

fn put_meant(line: &mut Vec<u8>, text: &str, best: Near) -> Result<(), AllocError>
    ensures { let words = meant text.now (option_map (λ x. (x.0, x.1.now)) best.entry) in
        OnOk result (line.new.items ≡ line.old.items ++ words) }
{
    match best {
        Some((count, name)) => put_if_near(line, is_near(text, count), name),
        None => Ok(()),
    }
}

/// Whether a name with so many edits may be meant by a text.
fn is_near(text: &str, count: usize) -> bool
    ensures { result ≡ is_near text.now count }
{
    count <= MAX_EDITS && 2 * count <= text.len()
}

fn put_if_near(line: &mut Vec<u8>, is_near: bool, name: &str) -> Result<(), AllocError>
    ensures { OnOk result (line.new.items ≡ line.old.items ++ meant_within is_near name.now) }
{
    if is_near {
        put_suggestion(line, name)
    } else {
        Ok(())
    }
}

fn put_suggestion(line: &mut Vec<u8>, name: &str) -> Result<(), AllocError>
    ensures { OnOk result (line.new.items ≡ line.old.items ++ (codes "; did you mean " ++ name.now)) }
{
    line.extend_from_slice(b"; did you mean ")?;
    put_text(line, name)
}

/// Puts a text as it is. `AllocError` where memory was refused.
pub(crate) fn put_text(line: &mut Vec<u8>, text: &str) -> Result<(), AllocError>
    ensures { OnOk result (line.new.items ≡ line.old.items ++ text.now) }
{
    line.extend_from_slice(text.as_bytes())
}

/// The name with the fewest edits.
#[tactic(auto, unfolding(crate::specs::faults::Near::nearest))]
fn nearest(alloc: Global, names: Names, text: &str) -> Result<Near, AllocError>
    ensures { IfOk result (λ best. option_map (λ x. (x.0, x.1.now)) best ≡ nearest names text.now 1032) }
{
    let mut best = None;
    for number in 0..NUMBERS {
        best = nearer_of(alloc, text, best, name_of(names, number))?;
    }
    Ok(best)
}

/// The name of a number.
fn name_of(names: Names, number: u64) -> Option<&'static str>
    ensures { option_map (λ name. name.now) result ≡ name_of names number }
{
    match names {
        Names::Services => service_name(number),
        Names::ObjectTypes => object_type_name(number),
        Names::Properties => property_name(number),
    }
}

fn nearer_of(
    alloc: Global,
    text: &str,
    best: Near,
    name: Option<&'static str>,
) -> Result<Near, AllocError>
    ensures { let before = option_map (λ x. (x.0, x.1.now)) best.entry in
        IfOk result (λ best. option_map (λ x. (x.0, x.1.now)) best
        ≡ nearer_of text.now before (option_map (λ name. name.now) name.entry)) }
{
    match name {
        Some(name) => Ok(nearer(best, edits(alloc, text, name)?, name)),
        None => Ok(best),
    }
}

fn nearer(best: Near, count: usize, name: &'static str) -> Near
    ensures { option_map (λ x. (x.0, x.1.now)) result
        ≡ nearer (option_map (λ x. (x.0, x.1.now)) best.entry) count name.now }
{
    match best {
        Some((least, _)) if least <= count => best,
        _ => Some((count, name)),
    }
}

/// How many characters are put in, left out or changed from one text to the other.
#[tactic(auto, unfolding(crate::specs::faults::Near::edits))]
fn edits(alloc: Global, from: &str, to: &str) -> Result<usize, AllocError>
    ensures { IfOk result (λ count. count ≡ edits from.now to.now) }
{
    levenshtein(alloc, from, to)
}
