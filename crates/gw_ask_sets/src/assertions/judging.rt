//! Whether assertions hold.
ghost use Rattle.std.specs.Prelude.{◌≡◌, ◌&&◌, true, false, None, IfOk, IfSome};
ghost use Rattle.gw_configuration.specs.Assertion.{is_meant};
ghost use Rattle.gw_rules.specs.Ask.{Ask as SpecAsk};
ghost use Rattle.gw_ask_sets.specs.assertions.Judging.{AreEachJudged, AreJudged, IsJudged};
ghost use Rattle.gw_ask_sets.specs.assertions.internal.Unraised.{AreAsserted};
ghost use Rattle.gw_ask_sets.specs.regions.Regions.{lies_in_one};

use crate::assertions::asserted::asserted;
use crate::assertions::condition::{conditions_of, meeting_one};
use crate::assertions::passing::search_decided;
use crate::regions::{Region, Unmatched, ask_in};
use gw_configuration::{Assertion, Config};
use gw_rules::Ask;
use std::alloc::{AllocError, Global};

/// How many steps each search is given: more than any list of 512 rules needed that was tried.
pub const JUDGING_STEPS: u32 = 4096;

/// What is found of an assertion.
#[derive(Clone, Copy)]
pub enum Judged {
    /// Some ask is meant, and each is decided as it says.
    Holds,
    /// One that is meant is decided otherwise.
    Broken {
        /// The ask, which lies in a shape.
        ask: Ask,
        /// The number of its first rule, from 1, or none.
        by: Option<u16>,
        /// Whether it is allowed.
        is_allowed: bool,
    },
    /// No ask is meant: a mistake.
    Empty,
    /// A search used up its steps.
    Unknown,
}

/// An ask of one of the regions, if there is one.
fn any_ask(regions: &[Region]) -> Option<Ask>
    ensures some { IfSome result (λ ask. lies_in_one regions.now ask ≡ true) }
    ensures none { result ≡ None → (ask : SpecAsk) → lies_in_one regions.now ask ≡ false }
{
    for region in regions {
        if let Some(ask) = ask_in(region) {
            return Some(ask);
        }
    }
    None
}

/// The asks of these regions that an assertion means.
fn meant(
    alloc: Global,
    asserted: &[Region],
    assertion: &Assertion,
) -> Result<Vec<Region>, AllocError>
    ensures { IfOk result (λ regions. (ask : SpecAsk) →
        lies_in_one regions.items ask ≡ (lies_in_one asserted.now ask && is_meant assertion.now ask)) }
{
    let conditions = conditions_of(alloc, assertion)?;
    meeting_one(alloc, &conditions, asserted)
}

fn judge_one(
    alloc: Global,
    config: &Config,
    asserted: &[Region],
    assertion: &Assertion,
    steps: u32,
) -> Result<Judged, AllocError>
    requires { AreAsserted config.now asserted.now }
    ensures { IfOk result (λ judged. IsJudged config.now steps assertion.now judged) }
{
    let regions = meant(alloc, asserted, assertion)?;
    match any_ask(&regions) {
        None => return Ok(Judged::Empty),
        Some(_) => {}
    }
    let is_allowed = !assertion.is_allowed;
    match search_decided(alloc, config.rules().rules(), regions, is_allowed, steps)? {
        Unmatched::Nothing => Ok(Judged::Holds),
        Unmatched::Unknown => Ok(Judged::Unknown),
        Unmatched::Found(ask) => {
            let by = config.rules().first(&ask);
            Ok(Judged::Broken {
                ask,
                by,
                is_allowed,
            })
        }
    }
}

fn judge_each(
    alloc: Global,
    config: &Config,
    asserted: &[Region],
    assertions: &[Assertion],
    steps: u32,
) -> Result<Vec<Judged>, AllocError>
    requires { AreAsserted config.now asserted.now }
    ensures { IfOk result (λ judged. AreEachJudged config.now steps assertions.now judged.items) }
{
    let mut judged = Vec::new(alloc);
    for assertion in assertions {
        let one = judge_one(alloc, config, asserted, assertion, steps)?;
        judged.push(one)?;
    }
    Ok(judged)
}

/// Judges each assertion of a configuration, in order, over the asks that it can raise, each search in at most so many
/// steps. An `Err` if there is no memory.
pub fn judge(alloc: Global, config: &Config, steps: u32) -> Result<Vec<Judged>, AllocError>
    ensures { IfOk result (λ judged. AreJudged config.now steps judged.items) }
{
    let asserted = asserted(alloc, config)?;
    judge_each(alloc, config, &asserted, config.assertions(), steps)
}
