//! What `check` and `compare` say as JSON objects, and the list of a configuration's objects.

ghost use Rattle.std.specs.Prelude.{◌≡◌, ◌⊎◌, [], option_map, IfOk};
ghost use Rattle.gw_json.specs.Check.{fault_value};
ghost use Rattle.gw_json.specs.Document.{line_of};
ghost use Rattle.gw_policy_review.specs.comparison.Comparing.{IsUnderWay};
ghost use Rattle.gw_report.specs.points.Points.{points_text};
ghost use Rattle.gw_ending.specs.reading.Files.{result_map};
ghost use Rattle.gw_tools.specs.Json.{AreComparisonLines, FaultLine, IsFaultLine, IsMade, IsPartsLine, IsTextOf};
ghost use Rattle.gw_tools.specs.Json.{SaysCheckedInJson, SaysConfigInJson, judged_line};
ghost use Rattle.gw_tools.specs.Saying.{SaysMade, SaysOf};

use crate::asserting::put_assertions;
use crate::comparing::Lines;
use gw_ask_sets::assertions::{JUDGING_STEPS, Judged, judge};
use gw_configuration::{Config, ConfigFault};
use gw_ending::Fault;
use gw_ending::reading::{Said, configuration_of, do_hold, said_of_judged};
use gw_json::{ResultListing, put_check, put_differences, put_fault, put_results, unheld_line};
use gw_policy_review::comparison::{
    Comparing, Part, differing_parts, judged_by, put_details, put_part_names,
};
use gw_policy_text::faults::explain;
use gw_report::points::put_points;
use std::alloc::{AllocError, Global};
use std::str;

/// The line of a configuration whose assertions were judged so: what it has, or which of them don't hold.
fn judged_line(alloc: Global, config: &Config, judged: &[Judged]) -> Result<Vec<u8>, AllocError>
    ensures { IfOk result (λ line. line.items ≡ judged_line config.now judged.now) }
{
    if !do_hold(judged) {
        return unheld_line(alloc, config, judged);
    }
    let mut line = Vec::new(alloc);
    put_check(alloc, &mut line, config)?;
    Ok(line)
}

/// What is said of a configuration: what it has, or which of its assertions don't hold. `Memory` is its only fault.
fn say_config(alloc: Global, config: &Config) -> Result<Said, Fault>
    ensures { SaysConfigInJson config.now result }
{
    let judged = judge(alloc, config, JUDGING_STEPS)?;
    let line = judged_line(alloc, config, &judged)?;
    Ok(said_of_judged(line, &judged))
}

/// The line of a fault, with what explains it. Nothing if memory was refused.
fn fault_line(alloc: Global, fault: ConfigFault, explanation: Option<&str>) -> Vec<u8>
    ensures { (result.items ≡ [])
        ⊎ (result.items ≡ line_of (fault_value fault (option_map (λ line. line.now) explanation.entry))) }
{
    let mut line = Vec::new(alloc);
    match put_fault(alloc, &mut line, fault, explanation) {
        Ok(()) => line,
        Err(_) => Vec::new(alloc),
    }
}

/// The line of a fault of a text, with what explains it if that can be said.
fn explained_line(alloc: Global, text: &[u8], fault: ConfigFault) -> Vec<u8>
    ensures { IsFaultLine text.now fault result.items }
{
    match explain(alloc, text, fault) {
        Ok(Some(explanation)) => {
            fault_line(alloc, fault, str::from_utf8(explanation.as_bytes()).ok())
        }
        Ok(None) | Err(_) => fault_line(alloc, fault, None),
    }
}

/// What is printed of a fault: the line of one of the configuration.
fn fault_object(alloc: Global, text: &Result<Vec<u8>, Fault>, fault: Fault) -> Vec<u8>
    ensures { FaultLine (result_map (λ octets. octets.items) text.now) fault result.items }
{
    if let (Ok(text), Fault::Configuration(fault)) = (text, fault) {
        return explained_line(alloc, text, fault);
    }
    Vec::new(alloc)
}

/// What `check --json` says of a text that was read: what the configuration has, or its fault.
pub fn check_in_json(alloc: Global, text: &Result<Vec<u8>, Fault>) -> Result<Said, Fault>
    ensures { SaysCheckedInJson (result_map (λ octets. octets.items) text.now) result }
{
    match configuration_of(alloc, text) {
        Ok(config) => say_config(alloc, &config),
        Err(fault) => {
            let object = fault_object(alloc, text, fault);
            Ok(Said::of_fault(object, fault))
        }
    }
}

/// A text of these octets, if they are UTF-8.
fn text_of(octets: &[u8]) -> Option<&str>
    ensures { IsTextOf octets.now (option_map (λ text. text.now) result) }
{
    str::from_utf8(octets).ok()
}

/// The line of the parts in which two configurations differ, and of what is said of their assertions.
fn parts_line(
    alloc: Global,
    old: &Config,
    new: &Config,
    differ: &[Part],
) -> Result<Vec<u8>, AllocError>
    ensures { IfOk result (λ line. IsPartsLine old.now new.now differ.now line.items) }
{
    let (mut names, mut details) = (Vec::new(alloc), Vec::new(alloc));
    let (mut asserts, mut line) = (Vec::new(alloc), Vec::new(alloc));
    put_part_names(&mut names, differ)?;
    put_details(&mut details, old, new, differ)?;
    put_assertions(alloc, &mut asserts, old, new)?;
    put_differences(
        alloc,
        &mut line,
        text_of(&names),
        text_of(&details),
        text_of(&asserts),
    )?;
    Ok(line)
}

/// In which parts two configurations differ, and what a comparison of them that is at its end found, in at most so many lines of
/// regions and of pairs of rules, and a last one.
pub fn comparison_lines(
    alloc: Global,
    most: usize,
    old: &Config,
    new: &Config,
    comparing: Comparing<'_>,
) -> Result<Lines, AllocError>
    ensures { IfOk result (λ lines. comparing.entry.old_one ≡ old.now → comparing.entry.new_one ≡ new.now → IsUnderWay comparing.entry
        → AreComparisonLines old.now new.now most lines.made lines.text.items) }
{
    let differ = differing_parts(alloc, old, new)?;
    let mut text = parts_line(alloc, old, new, &differ)?;
    let results = comparing.into_results(alloc)?;
    let listing = ResultListing {
        old: old.rules().rules(),
        new: new.rules().rules(),
        most,
    };
    put_results(alloc, &mut text, &listing, &results)?;
    let summary = &results.summary;
    let made = judged_by(
        differ.len(),
        summary.found.len(),
        summary.left.len(),
        &results.pairs,
    );
    Ok(Lines { text, made })
}

/// What `objects --csv` says of the configuration that was read: the list of its objects. Faults: why there is none, and `Memory`.
pub fn say_points(alloc: Global, config: Result<Config, Fault>) -> Result<Said, Fault>
    ensures { SaysOf (λ c. SaysMade (IsMade (points_text c))) config result }
{
    let config = config?;
    let mut text = Vec::new(alloc);
    put_points(alloc, &config, &mut text)?;
    Ok(Said::well(text))
}
