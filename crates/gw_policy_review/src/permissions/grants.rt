//! What rules let others do than the stations of a port and the routers of a network.
ghost use Rattle.std.specs.Prelude.{◌≡◌, ◌++◌, ◌≤◌, length, IfOk, OnOk};
ghost use Rattle.gw_policy_review.specs.permissions.Passing.{finding_at, lets};
ghost use Rattle.gw_policy_review.specs.permissions.Permissions.{AppendsGrants, every_words, extent_words, found_words, grant_line};
ghost use Rattle.gw_policy_review.specs.permissions.Permissions.{grant_words, grants_or_none, grants_text, head_words, maybe_words};
ghost use Rattle.gw_policy_review.specs.permissions.Permissions.{none_words, some_words};

use crate::lint::{Finding, findings_of};
use crate::permissions::passing::decides_all;
use crate::permissions::words::Placed;
use gw_addr::put_text_number;
use gw_ask_sets::shapes::Shape;
use gw_rules::Rule;
use std::alloc::{AllocError, Global};

/// What a rule may let others do.
#[derive(Clone, Copy)]
pub(crate) enum Deed {
    /// Enter by the port of this number, from 1.
    Enter(usize),
    /// Speak for a network.
    Claim,
}

/// A deed, the shape of the asks for it, and the configuration whose rules judge them.
#[derive(Clone, Copy)]
pub(crate) struct Inquiry<'a> {
    /// The deed.
    pub deed: Deed,
    /// The shape of its asks.
    pub shape: Shape,
    /// The configuration.
    pub placed: Placed<'a>,
}

/// Appends what a line on a deed begins with.
fn put_head(out: &mut Vec<u8>, deed: Deed) -> Result<(), AllocError>
    ensures { OnOk result (out.new.items ≡ out.old.items ++ head_words deed) }
{
    match deed {
        Deed::Enter(port) => {
            put_text_number(out, "port ", port)?;
            out.extend_from_slice(b": ")
        }
        Deed::Claim => Ok(()),
    }
}

/// That each ask for the deed is allowed.
fn every_words(deed: Deed) -> &'static [u8]
    ensures { result.now ≡ every_words deed }
{
    match deed {
        Deed::Enter(_) => b" lets every stranger enter\n",
        Deed::Claim => b" lets everyone speak for every network behind a router\n",
    }
}

/// That one is.
fn some_words(deed: Deed) -> &'static [u8]
    ensures { result.now ≡ some_words deed }
{
    match deed {
        Deed::Enter(_) => b" lets some strangers enter\n",
        Deed::Claim => b" lets some others speak for a network behind a router\n",
    }
}

/// That some may be.
fn maybe_words(deed: Deed) -> &'static [u8]
    ensures { result.now ≡ maybe_words deed }
{
    match deed {
        Deed::Enter(_) => b" may let strangers enter\n",
        Deed::Claim => b" may let others speak for a network behind a router\n",
    }
}

/// That none is.
fn none_words(deed: Deed) -> &'static [u8]
    ensures { result.now ≡ none_words deed }
{
    match deed {
        Deed::Enter(_) => b"no rule lets a stranger enter\n",
        Deed::Claim => b"no rule lets others speak for a network behind a router\n",
    }
}

/// What is found of a rule over the asks for the deed.
fn found_words(found: &Finding, deed: Deed) -> &'static [u8]
    ensures { result.now ≡ found_words found.now deed }
{
    match found {
        Finding::Decides(_) => some_words(deed),
        _ => maybe_words(deed),
    }
}

fn extent_words(every: bool, found: &Finding, deed: Deed) -> &'static [u8]
    ensures { result.now ≡ extent_words every found.now deed }
{
    if every {
        every_words(deed)
    } else {
        found_words(found, deed)
    }
}

/// Appends a line for each rule that lets somebody do the deed, or that there is none. So many steps are left for the
/// searches; says how many are left for others.
pub(crate) fn put_grants(
    alloc: Global,
    out: &mut Vec<u8>,
    inquiry: &Inquiry<'_>,
    left: u32,
) -> Result<u32, AllocError>
    ensures { IfOk result (λ rest. AppendsGrants inquiry.now.placed.config.now inquiry.now.placed.lines.now
        inquiry.now.deed inquiry.now.shape left rest out.old.items out.new.items) }
{
    let findings = findings_of(alloc, &[inquiry.shape], inquiry.placed.config.rules(), left)?;
    let grants = grants(alloc, inquiry, &findings.found)?;
    put_grants_or_none(out, inquiry.deed, &grants)?;
    Ok(findings.left)
}

fn put_grants_or_none(out: &mut Vec<u8>, deed: Deed, grants: &[u8]) -> Result<(), AllocError>
    ensures { OnOk result (out.new.items ≡ out.old.items ++ grants_or_none deed grants.now) }
{
    if grants.is_empty() {
        put_none(out, deed)
    } else {
        out.extend_from_slice(grants)
    }
}

fn put_none(out: &mut Vec<u8>, deed: Deed) -> Result<(), AllocError>
    ensures { OnOk result (out.new.items ≡ out.old.items ++ (head_words deed ++ none_words deed)) }
{
    put_head(out, deed)?;
    out.extend_from_slice(none_words(deed))
}

/// The lines of the rules that let somebody do the deed, by what is found of each rule.
fn grants(alloc: Global, inquiry: &Inquiry<'_>, findings: &[Finding]) -> Result<Vec<u8>, AllocError>
    ensures { IfOk result (λ text. text.items ≡ grants_text inquiry.now.placed.config.now
        inquiry.now.placed.lines.now inquiry.now.deed inquiry.now.shape findings.now) }
{
    let rules = inquiry.placed.config.rules().rules();
    let mut text = Vec::new(alloc);
    for place in 0..rules.len() {
        put_line(
            &mut text,
            inquiry,
            findings,
            place as u16 + 1,
            &rules[place],
        )?;
    }
    Ok(text)
}

/// What is found of the rule of this number.
pub(crate) fn finding_at(findings: &[Finding], number: u16) -> Finding
    ensures { result ≡ finding_at findings.now number }
{
    match findings.get(usize::from(number).saturating_sub(1)) {
        Some(found) => *found,
        None => Finding::MatchesNothing,
    }
}

/// Whether the rule lets somebody do it.
pub(crate) fn lets(rule: &Rule, found: &Finding) -> bool
    ensures { result ≡ lets rule.now found.now }
{
    match found {
        Finding::Decides(_) | Finding::Unknown => rule.allow,
        _ => false,
    }
}

/// Appends the line of the rule of this number, if it lets somebody do the deed.
fn put_line(
    out: &mut Vec<u8>,
    inquiry: &Inquiry<'_>,
    findings: &[Finding],
    number: u16,
    rule: &Rule,
) -> Result<(), AllocError>
    requires { number ≤ length inquiry.now.placed.config.now.rules }
    ensures { OnOk result (out.new.items ≡ out.old.items ++ grant_line inquiry.now.placed.config.now
        inquiry.now.placed.lines.now inquiry.now.deed inquiry.now.shape findings.now number rule.now) }
{
    let found = finding_at(findings, number);
    if lets(rule, &found) {
        put_grant(out, inquiry, number, rule, &found)
    } else {
        Ok(())
    }
}

fn put_grant(
    out: &mut Vec<u8>,
    inquiry: &Inquiry<'_>,
    number: u16,
    rule: &Rule,
    found: &Finding,
) -> Result<(), AllocError>
    requires { number ≤ length inquiry.now.placed.config.now.rules }
    ensures { OnOk result (out.new.items ≡ out.old.items ++ grant_words inquiry.now.placed.config.now
        inquiry.now.placed.lines.now inquiry.now.deed inquiry.now.shape number rule.now found.now) }
{
    let rules = inquiry.placed.config.rules().rules();
    let every = decides_all(&inquiry.shape, rules, usize::from(number), rule);
    put_head(out, inquiry.deed)?;
    inquiry.placed.put_rule(out, number, rule)?;
    out.extend_from_slice(extent_words(every, found, inquiry.deed))
}
