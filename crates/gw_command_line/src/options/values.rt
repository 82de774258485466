//! The values of options, as `clap` matched them.

ghost use Rattle.std.specs.Prelude.{◌≡◌, ◌<◌, ◌≤◌, ◌^◌, option_map, string_bytes, IfOk, IfSome};
ghost use Rattle.clap.specs.Words.{first_value, found_of};
ghost use Rattle.gw_command_line.specs.options.Values.{IsNumber, count_in, hold_word, holds_in, is_true, number_in, period_in};

use clap::ArgMatches;
use std::alloc::{AllocError, Global};

/// How many turns are served and how many lines are printed at most, and if no number of them is given.
pub const MAX_COUNT: u64 = i64::MAX as u64;

/// How many seconds lie between two reports at most.
pub const MAX_SECONDS: u64 = u32::MAX as u64;

/// The file that the option of this name names.
pub fn file_of(
    alloc: Global,
    matches: &ArgMatches<'_>,
    option: &str,
) -> Result<Option<String>, AllocError>
    ensures { IfOk result
        (λ file. option_map string_bytes file ≡ first_value (found_of matches.now) option.now) }
{
    match matches.get_str(option) {
        Some(file) => Ok(Some(String::from_str(alloc, file)?)),
        None => Ok(None),
    }
}

/// Whether the option of this name, which has no value, is given.
pub fn is_given(matches: &ArgMatches<'_>, option: &str) -> bool
    ensures { result ≡ is_true (first_value (found_of matches.now) option.now) }
{
    match matches.get_str(option) {
        Some(text) => text == "true",
        None => false,
    }
}

/// Whether a word is `hold`, if it is that or `end`.
fn hold_word(word: &str) -> Option<bool>
    ensures { result ≡ hold_word word.now }
{
    if word == "hold" {
        return Some(true);
    }
    if word == "end" {
        return Some(false);
    }
    None
}

/// Whether the option of this name says `hold`; without it, or if it says `end`, it doesn't. `None` if it says another word.
pub fn holds_of(matches: &ArgMatches<'_>, option: &str) -> Option<bool>
    ensures { result ≡ holds_in (first_value (found_of matches.now) option.now) }
{
    match matches.get_str(option) {
        Some(word) => hold_word(word),
        None => Some(false),
    }
}

/// The number from 1 to the most that a text says.
fn number_of(text: &str, most: u64) -> Option<u64>
    ensures number { result ≡ number_in most text.now }
    ensures range { IfSome result (λ n. (0 < n) × (n ≤ most)) }
{
    parse_number(text, most)
}

/// What `parse` reads of a text, if it is a number from 1 to the most.
fn parse_number(text: &str, most: u64) -> Option<u64>
    ensures number { IsNumber most text.now result }
    ensures range { IfSome result (λ n. (0 < n) × (n ≤ most)) }
{
    match text.parse::<u64>() {
        Ok(number) if 1 <= number && number <= most => Some(number),
        Ok(_) | Err(_) => None,
    }
}

/// The number of turns or of lines that the option of this name says, or the most if it isn't given.
pub fn count_of(matches: &ArgMatches<'_>, option: &str) -> Option<u64>
    ensures number { result ≡ count_in (first_value (found_of matches.now) option.now) }
    ensures few { IfSome result (λ n. n < 2 ^ 63) }
{
    match matches.get_str(option) {
        Some(text) => number_of(text, MAX_COUNT),
        None => Some(MAX_COUNT),
    }
}

/// How many seconds lie between two reports by the option of this name; `Some(None)` if it isn't given.
pub fn period_of(matches: &ArgMatches<'_>, option: &str) -> Option<Option<u64>>
    ensures number { result ≡ period_in (first_value (found_of matches.now) option.now) }
    ensures some { IfSome result (λ period. IfSome period (λ n. 0 < n)) }
{
    match matches.get_str(option) {
        Some(text) => Some(Some(number_of(text, MAX_SECONDS)?)),
        None => Some(None),
    }
}
