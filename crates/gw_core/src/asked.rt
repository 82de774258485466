//! What a datagram asks, with what the policy says of it.

ghost use Rattle.std.specs.Prelude.{◌≡◌, [], Bool, IfOk, IsOk, List, None, Option, map, refl};
ghost use Rattle.gw_rules.specs.Ask.{Ask};
ghost use Rattle.gw_rules.specs.Authorizer.{denied_of};
ghost use Rattle.gw_rules.specs.declared.rule.Rule.{Rule};
ghost use Rattle.gw_rules.specs.declared.verdict.Verdict.{Verdict};
ghost use Rattle.gw_core.specs.Asked.{asked_from, asked_of, refused_of};
ghost use Rattle.gw_core.specs.Receive.{Origin};
ghost use Rattle.gw_core.specs.internal.View.{origin_of};

use crate::denial::origin_of;
use crate::guard::Guard;
use crate::receive::Received;
use crate::seen::{SeenAsks, Whom};
use crate::sieve::{Sieve, Sieved};
use gw_addr::{Sequence, Source};
use gw_rule_index::Policy;
use gw_rules::{Asker, Authorizer, Recorder, Refusal, Refusals, Verdict};
use std::alloc::{AllocError, Global};

/// An ask that a datagram raised, and what the policy says of it.
#[derive(Drop)]
pub struct Asked {
    /// The number of the port that the datagram came on, from 1.
    pub port: u8,
    /// Whom the ask is of: an ask to enter is of the link source, and any other of whom the datagram claims
    /// to come from.
    pub source: Source,
    /// What was asked, and what the policy says of it.
    pub verdict: Verdict,
}

/// Asks with their verdicts, in order. Contracts see the list of them.
pub type AllAsked = Sequence<Asked>;

/// What an asker reports once its turn is over.
#[derive(Drop)]
pub(crate) struct Report<T> {
    /// The refusals, in order.
    pub refusals: Refusals,
    /// What is to be said of all that was asked.
    pub asked: T,
}

/// An asker that reports what it kept once its turn is over. What is done about a datagram is generic in it, so that
/// one walk serves a guard that watches and one that doesn't.
pub(crate) trait Reporter: Asker + Drop {
    /// What it says of all that was asked.
    type Asked: Drop;

    /// What it says of asks that come from there, by what it picks.
    ghost asked: { (Verdict → Bool) → Option Origin → List Rule → List Ask → Self.Asked };

    /// Reports what it kept of what is received. If it kept nothing it takes no memory.
    fn into_report(
        self,
        alloc: Global,
        received: &Received<'_>,
    ) -> Result<Report<Self::Asked>, AllocError>
        ensures refusals { (rules : List Rule) (asks : List Ask) → Self.kept self ≡ Self.kept_of rules asks →
            IfOk result (λ report. report.refusals ≡ denied_of rules asks) }
        ensures asked { (rules : List Rule) (asks : List Ask) → Self.kept self ≡ Self.kept_of rules asks →
            IfOk result (λ report. report.asked ≡ asked (Self.picks self) (origin_of received.now) rules asks) }
        ensures silent { Self.kept self ≡ [] → IsOk result };

    /// If nothing is asked, it says the same whoever it comes from.
    ghost unasked: { (picks : Verdict → Bool) (from : Option Origin) (rules : List Rule)
        → asked picks from rules [] ≡ asked picks None rules [] };
}

/// It says nothing but what was refused.
impl Reporter for Authorizer<'_, Policy> {
    type Asked = ();

    ghost asked = { λ picks from rules asks. tt };

    fn into_report(
        self,
        _alloc: Global,
        _received: &Received<'_>,
    ) -> Result<Report<()>, AllocError> {
        Ok(Report {
            refusals: self.into_refusals(),
            asked: (),
        })
    }

    ghost unasked = { λ picks from rules. refl };
}

/// It says all that was asked, with the verdicts.
impl Reporter for Recorder<'_, Policy> {
    ghost use Rattle.gw_rules.specs.Asker.{verdicts_of};
    ghost use Rattle.gw_core.specs.internal.Reports.{none_from};

    type Asked = AllAsked;

    ghost asked = { λ picks from rules asks. asked_of from (verdicts_of rules asks) };

    fn into_report(
        self,
        alloc: Global,
        received: &Received<'_>,
    ) -> Result<Report<AllAsked>, AllocError> {
        let refusals = refused_of(alloc, self.verdicts())?;
        let asked = asked_of(alloc, received, self.verdicts())?;
        Ok(Report { refusals, asked })
    }

    ghost unasked = { λ picks from rules. none_from from };
}

/// It says what its guard sees of that.
impl<G: Guard> Reporter for Sieve<'_, G> {
    ghost use Rattle.gw_rules.specs.Asker.{verdicts_of};
    ghost use Rattle.gw_core.specs.Seen.{seen_of};
    ghost use Rattle.gw_core.specs.internal.Reports.{nothing_from};

    type Asked = SeenAsks;

    ghost asked = { λ picks from rules asks. seen_of picks (asked_of from (verdicts_of rules asks)) };

    fn into_report(
        self,
        alloc: Global,
        received: &Received<'_>,
    ) -> Result<Report<SeenAsks>, AllocError> {
        let Sieved {
            refusals,
            deciders,
            kept,
        } = self.into_sieved();
        Ok(Report {
            refusals,
            asked: SeenAsks::of(alloc, received, deciders, kept),
        })
    }

    ghost unasked = { λ picks from rules. nothing_from picks from };
}

/// Each ask by itself, of the verdicts on what is received, with whom it is of. If there is none it takes no memory.
fn asked_of(
    alloc: Global,
    received: &Received<'_>,
    verdicts: &[Verdict],
) -> Result<AllAsked, AllocError>
    ensures all { IfOk result (λ all. all ≡ asked_of (origin_of received.now) verdicts.now) }
    ensures silent { verdicts.now ≡ [] → IsOk result }
{
    match origin_of(received) {
        Some(from) => all_of(alloc, &from.whom(), verdicts),
        None => Ok(AllAsked::new(alloc)),
    }
}

/// Each ask by itself, of the verdicts on what somebody asks. If there is none it takes no memory.
fn all_of(alloc: Global, whom: &Whom, verdicts: &[Verdict]) -> Result<AllAsked, AllocError>
    ensures all { IfOk result (λ all. all ≡ map (asked_from whom.now) verdicts.now) }
    ensures silent { verdicts.now ≡ [] → IsOk result }
{
    let mut all = AllAsked::new(alloc);
    for verdict in verdicts {
        all.push(Asked {
            port: whom.port(),
            source: *whom.source_of(&verdict.ask),
            verdict: *verdict,
        })?;
    }
    Ok(all)
}

/// The refusals among verdicts, which are those that deny, but by quiet rules. If there is none it takes no memory.
pub(crate) fn refused_of(alloc: Global, verdicts: &[Verdict]) -> Result<Refusals, AllocError>
    ensures refusals { IfOk result (λ refusals. refusals ≡ refused_of verdicts.now) }
    ensures silent { verdicts.now ≡ [] → IsOk result }
{
    let mut refusals = Refusals::new(alloc);
    for verdict in verdicts {
        if !verdict.is_allowed && !verdict.is_quiet {
            refusals.push(Refusal {
                ask: verdict.ask,
                by: verdict.by,
            })?;
        }
    }
    Ok(refusals)
}
