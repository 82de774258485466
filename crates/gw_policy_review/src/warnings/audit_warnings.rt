//! What is said of audits.

ghost use Rattle.std.specs.Prelude.{◌≡◌};
ghost use Rattle.gw_addr.specs.Appending.{IsAppended};
ghost use Rattle.gw_configuration.specs.Located.{numbered};
ghost use Rattle.gw_script.specs.Order.{in_order};
ghost use Rattle.gw_policy_review.specs.warnings.Warnings.{audit_front, audit_line, audit_lines, audit_words, is_audited};

use crate::warnings::spot::{put_name, put_numbered};
use gw_addr::{put_octet, put_slice};
use gw_rules::Rule;
use std::alloc::AllocError;

/// Appends a line for each rule that is audited.
pub(crate) fn put_audits(
    out: &mut Vec<u8>,
    audits: &[bool],
    rules: &[Rule],
) -> Result<(), AllocError>
    ensures { IsAppended (in_order (audit_lines audits.now) 0 rules.now) out.old out.new result }
{
    for (index, rule) in rules.iter().enumerate() {
        put_audit(out, audits, index, rule)?;
    }
    Ok(())
}

fn put_audit(
    out: &mut Vec<u8>,
    audits: &[bool],
    index: usize,
    rule: &Rule,
) -> Result<(), AllocError>
    ensures { IsAppended (audit_lines audits.now index rule.now) out.old out.new result }
{
    if is_audited(audits, index) {
        put_audited(out, index, rule)
    } else {
        Ok(())
    }
}

/// Whether the rule at a position is audited.
fn is_audited(audits: &[bool], index: usize) -> bool
    ensures { result ≡ is_audited audits.now index }
{
    match audits.get(index) {
        Some(audit) => *audit,
        None => false,
    }
}

fn put_audited(out: &mut Vec<u8>, index: usize, rule: &Rule) -> Result<(), AllocError>
    ensures { IsAppended (audit_line index rule.now) out.old out.new result }
{
    put_front(out, rule.allow, index)?;
    put_name(out, &rule.name)?;
    put_words(out, rule.allow)?;
    put_octet(out, b'\n')
}

/// Appends how a line on a rule that is audited begins, by whether it allows: it is a warning if the rule denies.
fn put_front(out: &mut Vec<u8>, allows: bool, index: usize) -> Result<(), AllocError>
    ensures { IsAppended (numbered (audit_front allows) index) out.old out.new result }
{
    if allows {
        put_numbered(out, b"rule ", index)
    } else {
        put_numbered(out, b"warning: rule ", index)
    }
}

/// Appends what is said of a rule that is audited, by whether it allows.
fn put_words(out: &mut Vec<u8>, allows: bool) -> Result<(), AllocError>
    ensures { IsAppended (audit_words allows) out.old out.new result }
{
    if allows {
        put_slice(out, b"audit: run --audit writes what it allows")
    } else {
        put_slice(
            out,
            b"audit: what a rule denies is in the log, never in an audit",
        )
    }
}
