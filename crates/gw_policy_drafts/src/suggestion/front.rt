//! Rules put in front of those of a configuration, in its text.
ghost use Rattle.std.specs.Prelude.{◌≡◌, ◌≤◌, ◌++◌, [], false, length, IfOk, IsTrue};
ghost use Rattle.gw_policy_drafts.specs.suggestion.Suggestion.{HasInFront, IsInFront, each};

use crate::suggestion::fault::SuggestFault;
use gw_configuration::sameness::{Same, are_same};
use gw_configuration::{Config, ConfigFault, Text};
use gw_policy_text::read_config;
use gw_rules::Rule;
use std::alloc::{AllocError, Global};

/// What the table of a rule begins with.
const RULE: &[u8] = b"[[rule]]";

/// Whether a line begins at a place with the table of a rule.
fn begins_rule(text: &[u8], place: usize) -> bool
    requires { place ≤ length text.now }
{
    let at_line = place == 0 || text[place - 1] == b'\n';
    at_line && text[place..].starts_with(RULE)
}

/// The place of the first rule in the text of a configuration, or of its end.
fn place_of_rules(text: &[u8]) -> usize
    ensures { result ≤ length text.now }
{
    for place in 0..text.len() {
        if begins_rule(text, place) {
            return place;
        }
    }
    text.len()
}

/// Three texts, one after the other.
fn whole(alloc: Global, front: &[u8], added: &[u8], rest: &[u8]) -> Result<Vec<u8>, AllocError>
    ensures { IfOk result (λ text. text.items ≡ front.now ++ added.now ++ rest.now) }
{
    let mut text = Vec::new(alloc);
    text.extend_from_slice(front)?;
    text.extend_from_slice(added)?;
    text.extend_from_slice(rest)?;
    Ok(text)
}

/// Whether rules are some rules and others after them.
fn are_both(all: &[Rule], some: &[Rule], others: &[Rule]) -> bool
    ensures { IsTrue result → all.now ≡ some.now ++ others.now }
{
    if all.len() < some.len() {
        return false;
    }
    let (front, back) = all.split_at(some.len());
    are_same(front, some) && are_same(back, others)
}

/// Whether texts are so many empty ones, and others after them.
fn are_empty_and(all: &[Text], count: usize, others: &[Text]) -> bool
    ensures { IsTrue result → all.now ≡ each count [] ++ others.now }
{
    if all.len() < count {
        return false;
    }
    let (front, back) = all.split_at(count);
    are_all_empty(front) && are_same(back, others)
}

fn is_empty(text: &Text) -> bool
    ensures { IsTrue result → text.now ≡ [] }
{
    text.as_str().is_empty()
}

fn are_all_empty(texts: &[Text]) -> bool
    ensures { IsTrue result → texts.now ≡ each (length texts.now) [] }
{
    for text in texts {
        if !is_empty(text) {
            return false;
        }
    }
    true
}

/// Whether flags are so many that are false, and others after them.
fn are_false_and(all: &[bool], count: usize, others: &[bool]) -> bool
    ensures { IsTrue result → all.now ≡ each count false ++ others.now }
{
    if all.len() < count {
        return false;
    }
    let (front, back) = all.split_at(count);
    are_all_false(front) && are_same(back, others)
}

fn are_all_false(flags: &[bool]) -> bool
    ensures { IsTrue result → flags.now ≡ each (length flags.now) false }
{
    for flag in flags {
        if *flag {
            return false;
        }
    }
    true
}

/// Whether two configurations are the same but for their rules and sets.
fn are_same_beside(old: &Config, config: &Config) -> bool
    ensures format { IsTrue result → config.now.format ≡ old.now.format }
    ensures announce { IsTrue result → config.now.announce ≡ old.now.announce }
    ensures device { IsTrue result → config.now.device ≡ old.now.device }
    ensures ports { IsTrue result → config.now.ports ≡ old.now.ports }
    ensures routes { IsTrue result → config.now.routes ≡ old.now.routes }
    ensures objects { IsTrue result → config.now.objects ≡ old.now.objects }
    ensures assertions { IsTrue result → config.now.assertions ≡ old.now.assertions }
{
    config.format().is_same(&old.format())
        && config.announces().is_same(&old.announces())
        && config.device().is_same(old.device())
        && are_same(config.ports(), old.ports())
        && are_same(config.routes(), old.routes())
        && are_same(config.objects(), old.objects())
        && are_same(config.assertions(), old.assertions())
}

/// Whether a configuration is another one with these rules in front of its own, without notes, and not audited.
fn has_in_front(config: &Config, rules: &[Rule], old: &Config) -> bool
    ensures { IsTrue result → HasInFront old.now rules.now config.now }
{
    are_both(config.rules().rules(), rules, old.rules().rules())
        && are_empty_and(config.notes(), rules.len(), old.notes())
        && are_false_and(config.audits(), rules.len(), old.audits())
        && are_same_beside(old, config)
}

/// Reads the text of a configuration with a text put in front of its rules. `Unlike` if that isn't read as
/// the configuration with these rules in front; `TooManyRules` if it has more than it may have; `Memory`.
pub(crate) fn read_in_front(
    alloc: Global,
    old: &Config,
    text: &[u8],
    rules: &[Rule],
    added: &[u8],
) -> Result<Config, SuggestFault>
    ensures { IfOk result (IsInFront old.now text.now rules.now added.now) }
{
    let (front, rest) = text.split_at(place_of_rules(text));
    let all = whole(alloc, front, added, rest)?;
    match read_config(alloc, &all) {
        Ok(config) if has_in_front(&config, rules, old) => Ok(config),
        Ok(_) => Err(SuggestFault::Unlike),
        Err(ConfigFault::Memory) => Err(SuggestFault::Memory),
        Err(ConfigFault::TooMany) => Err(SuggestFault::TooManyRules),
        Err(_) => Err(SuggestFault::Unlike),
    }
}
