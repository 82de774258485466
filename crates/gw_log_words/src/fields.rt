//! The place at which a line's own fields begin.

ghost use Rattle.std.specs.Prelude.{◌≡◌, ◌≤◌, true, length, drop, option_map, IfSome};
ghost use Rattle.gw_log_words.specs.Fields.{fields_of, is_denial, says_allow, shows_ask};

use crate::form::{AskForm, DenialForm, Form};

/// How many octets are in front of a line's own fields. `None` if it has no such fields.
pub(crate) fn front_of<F: Form>(form: &F, line: &[u8]) -> Option<usize>
    ensures fields { option_map (λ at. drop at line.now) result ≡ fields_of (F.passes form.now) line.now }
    ensures within { IfSome result (λ at. at ≤ length line.now) }
{
    let mut begins = true;
    for at in 0..line.len() {
        if begins && form.passes(&line[at..]) {
            return Some(at);
        }
        begins = line[at] == b' ';
    }
    if begins && form.passes(b"") {
        Some(line.len())
    } else {
        None
    }
}

/// How many octets are in front of the fields by which a line shows an ask: the line of a denial, or the eight words of one.
/// `None` if it shows none.
pub fn ask_front(line: &[u8]) -> Option<usize>
    ensures fields { option_map (λ at. drop at line.now) result ≡ fields_of shows_ask line.now }
    ensures within { IfSome result (λ at. at ≤ length line.now) }
{
    front_of(&AskForm, line)
}

/// How many octets are in front of a line's own fields, which are the line of a denial. `None` if it has no such fields.
pub fn denial_front(line: &[u8]) -> Option<usize>
    ensures fields { option_map (λ at. drop at line.now) result ≡ fields_of is_denial line.now }
    ensures within { IfSome result (λ at. at ≤ length line.now) }
{
    front_of(&DenialForm, line)
}

/// Whether what is in front of a line's own fields ends with the word `allow`, as in a record of an audit: the ask was allowed.
/// Any other line shows a denial.
pub fn says_allow(front: &[u8]) -> bool
    ensures { result ≡ says_allow front.now }
{
    front == b"allow ".as_slice() || front.ends_with(b" allow ")
}
