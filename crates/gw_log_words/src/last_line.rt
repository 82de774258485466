//! The last line of a log that shows a denial.

ghost use Rattle.std.specs.Prelude.{◌≡◌, ◌++◌, ◌∷◌, [], MatchOption, option_map};
ghost use Rattle.gw_addr.specs.Text.{Lacks};
ghost use Rattle.gw_log_words.specs.Fields.{fields_of, is_denial};
ghost use Rattle.gw_log_words.specs.LastDenial.{last_denial};

use crate::fields::denial_front;
use memchr::memrchr;

/// The own fields of the last whole line of a text that shows a denial: the line of that denial, whatever is in front of it, such
/// as a stamp, and whatever lines follow that show none, such as notes. What comes after the last line feed is no line. `None` if
/// no whole line shows a denial.
///
/// ```text
/// 2026-11-27T08:00:17Z 7 17 1 1:C0A80105BAC0 read dst=100 svc=12 obj=5,2 prop=85 prio=- rule=hide
/// 2026-11-27T08:00:20Z # bacgw 0.1.0 began
/// ```
pub fn last_denial(text: &[u8]) -> Option<&[u8]>
    ensures { option_map (λ fields. fields.now) result ≡ last_denial text.now }
{
    let Some((mut lines, _cut)) = rsplit_line(text) else {
        return None;
    };
    for _ in 0..text.len() {
        let Some((before, line)) = rsplit_line(lines) else {
            return own_fields(lines);
        };
        if let Some(fields) = own_fields(line) {
            return Some(fields);
        }
        lines = before;
    }
    None
}

/// A line's own fields, if they are the line of a denial.
fn own_fields(line: &[u8]) -> Option<&[u8]>
    ensures { option_map (λ fields. fields.now) result ≡ fields_of is_denial line.now }
{
    match denial_front(line) {
        Some(at) => Some(&line[at..]),
        None => None,
    }
}

/// What comes before the last line feed of a text, and what comes after it.
fn rsplit_line(text: &[u8]) -> Option<(&[u8], &[u8])>
    ensures { MatchOption result (Lacks 10 text.now) (λ parts. (text.now ≡ parts.0.now ++ 10 ∷ parts.1.now) × Lacks 10 parts.1.now) }
{
    match memrchr(b'\n', text) {
        Some(place) => Some((&text[..place], &text[place + 1..])),
        None => None,
    }
}
