//! Rules suggested for the asks of a log.
ghost use Rattle.std.specs.Prelude.{◌≡◌, ℕ, List, Ok, Some, IfOk, IsSomeAnd};
ghost use Rattle.gw_policy_text.specs.Document.{configuration};
ghost use Rattle.gw_rules.specs.Ask.{Ask as SpecAsk};
ghost use Rattle.gw_script.specs.Known.{OnKnown};
ghost use Rattle.gw_policy_drafts.specs.suggestion.Own.{covered};
ghost use Rattle.gw_policy_drafts.specs.suggestion.Suggestion.{IsAdded, IsSuggested, IsSuggestion, LeavesSuggestion, LeavesText};
ghost use Rattle.gw_policy_drafts.specs.suggestion.Suggestion.{matched_own, wanted};
ghost use Rattle.gw_policy_drafts.specs.suggestion.Given.{taken};
ghost use Rattle.gw_policy_drafts.specs.suggestion.Text.{IsTextOf, place_of};

use crate::suggestion::cutting::cut_all;
use crate::suggestion::fault::SuggestFault;
use crate::suggestion::front::read_in_front;
use crate::suggestion::given::{filled, is_open};
use crate::suggestion::group::{Group, own_ranges};
use crate::suggestion::joining::{Joined, join_all};
use crate::suggestion::leaving::{Parted, find_breaking};
use crate::suggestion::reading::{Seen, read_asks};
use crate::suggestion::rules::rules_of;
use crate::suggestion::text::{CommentParts, DraftSite, put_text};
use gw_configuration::{Config, ConfigFault};
use gw_policy_text::read_config;
use gw_rules::{Ask, MAX_RULES, Rule};
use gw_script::{OctetSink, OctetSource, write_whole};
use std::alloc::{AllocError, Global};

/// How rules are made of asks.
#[derive(Clone, Copy)]
pub struct Manner {
    /// Whether the rules name the service of reads and lists, too.
    pub keeps_services: bool,
    /// Whether they allow of each station, operation and destination each object that it asked for with each
    /// property and priority that it asked for.
    pub fills: bool,
}

/// The ranges of each ask's own rule.
fn own_groups(alloc: Global, keeps: bool, asks: &[Ask]) -> Result<Vec<Group>, AllocError>
    ensures { IfOk result (λ groups. (ask : SpecAsk) → covered groups.items ask ≡ matched_own keeps asks.now ask) }
{
    let mut groups = Vec::new(alloc);
    for ask in asks {
        let made = own_ranges(alloc, keeps, ask)?;
        groups.push(made)?;
    }
    Ok(groups)
}

/// Few ranges that cover what the own rules of asks match.
fn groups_of(alloc: Global, keeps: bool, asks: &[Ask]) -> Result<Joined, AllocError>
    ensures { IfOk result (λ made. (ask : SpecAsk) → covered made.groups.items ask ≡ matched_own keeps asks.now ask) }
{
    let own = own_groups(alloc, keeps, asks)?;
    let Joined { groups, apart } = join_all(alloc, own)?;
    let cut = cut_all(alloc, groups)?;
    Ok(Joined { groups: cut, apart })
}

/// Rules that are suggested, and how many groups of asks were left apart.
#[derive(Drop)]
struct Rules {
    rules: Vec<Rule>,
    apart: usize,
}

/// The rules for asks. `TooManyRules` if a policy may have no more, or `Memory`.
fn rules_for(alloc: Global, keeps: bool, asks: &[Ask], old: &[Rule]) -> Result<Rules, SuggestFault>
    ensures { IfOk result (λ made. IsSuggestion keeps asks.now made.rules.items) }
{
    let Joined { groups, apart } = groups_of(alloc, keeps, asks)?;
    if groups.len() > MAX_RULES || old.len() > MAX_RULES - groups.len() {
        return Err(SuggestFault::TooManyRules);
    }
    let rules = rules_of(alloc, groups.as_slice(), old)?;
    Ok(Rules { rules, apart })
}

/// Those of the asks that have rules.
fn taken(alloc: Global, asks: &[Ask]) -> Result<Vec<Ask>, AllocError>
    ensures { IfOk result (λ some. some.items ≡ taken asks.now) }
{
    let mut some = Vec::new(alloc);
    for ask in asks {
        if !is_open(ask) {
            some.push(*ask)?;
        }
    }
    Ok(some)
}

/// The rules for those of the asks that have rules.
fn rules_of_taken(
    alloc: Global,
    keeps: bool,
    asks: &[Ask],
    old: &[Rule],
) -> Result<Rules, SuggestFault>
    ensures { IfOk result (λ made. IsSuggestion keeps (taken asks.now) made.rules.items) }
{
    let some = taken(alloc, asks)?;
    rules_for(alloc, keeps, some.as_slice(), old)
}

/// The rules for the asks that are wanted.
#[tactic(auto, using(crate::proofs::suggestion_lemmas::SuggestLaw::wants_these))]
fn rules_in(
    alloc: Global,
    manner: Manner,
    asks: &[Ask],
    old: &[Rule],
) -> Result<Rules, SuggestFault>
    ensures { IfOk result (λ made. IsSuggestion manner.keeps_services (wanted manner asks.now) made.rules.items) }
{
    if manner.fills {
        let more = filled(alloc, asks)?;
        let made = rules_of_taken(alloc, manner.keeps_services, more.as_slice(), old)?;
        return Ok(made);
    }
    rules_of_taken(alloc, manner.keeps_services, asks, old)
}

/// The text of these rules, and of what their comments say.
fn text_of(
    alloc: Global,
    config: &Config,
    parted: &Parted,
    apart: usize,
    seen: &Seen,
) -> Result<Vec<u8>, AllocError>
    ensures { IfOk result (λ added. IsTextOf (place_of config.now) config.now.assertions parted.now.kept.items parted.now.left.items
        seen.now.given added.items) }
{
    let weighted = seen.given.weighted(alloc)?;
    let said = CommentParts {
        left: &parted.left,
        assertions: config.assertions(),
        asks: &weighted,
        apart: apart as u64,
        unread: seen.unread,
    };
    let mut added = Vec::new(alloc);
    put_text(&mut added, place_of(config), parted.kept.as_slice(), &said)?;
    Ok(added)
}

/// Whose rules they are.
fn place_of(config: &Config) -> DraftSite
    ensures { result ≡ place_of config.now }
{
    DraftSite {
        format: config.format(),
        network: u64::from(config.device().network.get()),
    }
}

/// The text of the rules for the asks that were seen, but for those that would break an assertion.
#[tactic(auto, using(crate::proofs::suggestion_lemmas::LeavingLaw::breaks_more))]
fn added_for(
    alloc: Global,
    config: &Config,
    text: &[u8],
    manner: Manner,
    seen: &Seen,
) -> Result<Vec<u8>, SuggestFault>
    ensures { IfOk result (λ added. IsAdded config.now text.now manner seen.now.given added.items) }
{
    let Rules { rules, apart } = rules_in(
        alloc,
        manner,
        seen.given.as_slice(),
        config.rules().rules(),
    )?;
    let mut parted = Parted {
        kept: rules,
        left: Vec::new(alloc),
    };
    for _ in 0..=MAX_RULES {
        let added = text_of(alloc, config, &parted, apart, seen)?;
        let tried = read_in_front(alloc, config, text, &parted.kept, &added)?;
        match find_breaking(alloc, &tried, parted.kept.len())? {
            None => return Ok(added),
            Some(found) => parted.leave_out(found)?,
        }
    }
    Err(SuggestFault::Unlike)
}

/// The configuration of a text. `Configuration` with the text's first fault, or `Memory`.
fn configured(alloc: Global, text: &[u8]) -> Result<Config, SuggestFault>
    ensures { IfOk result (λ config. configuration text.now ≡ Ok config) }
{
    match read_config(alloc, text) {
        Ok(config) => Ok(config),
        Err(ConfigFault::Memory) => Err(SuggestFault::Memory),
        Err(fault) => Err(SuggestFault::Configuration(fault)),
    }
}

/// The text of the rules for what the lines of a log ask for and a configuration denies.
fn made<R: OctetSource>(
    alloc: Global,
    text: &[u8],
    manner: Manner,
    reader: &mut R,
) -> Result<Vec<u8>, SuggestFault>
    ensures { IfOk result (λ added. (log : List ℕ) → R.left reader.old ≡ Some log →
        IsSuggested text.now manner log added.items) }
{
    let config = configured(alloc, text)?;
    let seen = read_asks(alloc, config.rules(), reader)?;
    let added = added_for(alloc, &config, text, manner, &seen)?;
    Ok(added)
}

/// Writes rules, as TOML, that allow what the lines of a log ask for and a configuration denies, to be put in
/// front of the configuration's rules. `text` is the text of the configuration.
///
/// A line is one of the log, with `deny ` in front or not, or the eight words in the middle of one, and ends with a
/// line feed, which the last may lack. It has at most 4096 octets without it. Other lines are counted, and a comment
/// at the end says how many there were; those of a replay that show no ask (`send ..`, `ask ..`, `end`) aren't.
///
/// Each rule has a comment that says how many asks it is for, and one for each field that these lack: any value will do
/// there. A read that names no object or property, and a write that names none or no priority, has no rule, but a comment at
/// the end counts them; so does another one the groups of asks that were left apart, if many ranges differ.
///
/// A rule that would break an assertion of the configuration is a comment that names the assertion.
///
/// What is written was read back: put into the text in front of the first rule, it is read as these rules and the
/// configuration's after them, with nothing else in it.
///
/// ```text
/// # 2 asks
/// [[rule]]
/// name = "suggested-1"
/// allow = true
/// operation = ["read"]
/// port = [1]
/// source_network = [1]
/// source = ["192.168.1.5:47808"]
/// destination = [100]
/// object_type = [5]
/// instance = [[1, 2]]
/// property = [85]
/// ```
///
/// All lines are read before anything is written; with each fault but `Write` nothing is. The writer isn't flushed.
#[tactic(auto, using(crate::proofs::suggestion_lemmas::TextLaw::made_left, crate::proofs::suggestion_lemmas::TextLaw::nothing_left))]
pub fn suggest<R: OctetSource, W: OctetSink>(
    alloc: Global,
    text: &[u8],
    manner: Manner,
    reader: &mut R,
    writer: &mut W,
) -> Result<(), SuggestFault>
    // What is written then, where the octets of the reader and the writer are known.
    ensures { OnKnown (R.left reader.old) (W.held writer.old) (W.held writer.new)
        (LeavesSuggestion text.now manner result) }
{
    match made(alloc, text, manner, reader) {
        Ok(added) => write(writer, added.as_slice()),
        Err(fault) => Err(fault),
    }
}

/// Writes a text whole. `Write` after a failed write; then a front of it is written.
#[tactic(auto, using(crate::proofs::suggestion_lemmas::TextLaw::whole_left, crate::proofs::suggestion_lemmas::TextLaw::front_left))]
fn write<W: OctetSink>(writer: &mut W, text: &[u8]) -> Result<(), SuggestFault>
    ensures { (before : List ℕ) → W.held writer.old ≡ Some before →
        IsSomeAnd (W.held writer.new) (LeavesText text.now result before) }
{
    match write_whole(writer, text) {
        Ok(()) => Ok(()),
        Err(_) => Err(SuggestFault::Write),
    }
}
