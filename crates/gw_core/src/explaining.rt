//! A line for each ask of an event, allowed or denied.

ghost use Rattle.std.specs.Prelude.{◌≡◌, ◌≤◌, ◌++◌, [], IsOk, OnOk, vec_capacity};
ghost use Rattle.gw_addr.specs.Appending.{IsAppended};
ghost use Rattle.gw_core.specs.Explained.{asked_line, asked_lines, by_text, judged_text, verdict_text};

use crate::asked::Asked;
use crate::denial::name_at;
use gw_addr::{put_decimal, put_octet, put_slice};
use gw_audit::put_ask;
use gw_rules::{Ask, RuleList, quiet_mark};
use std::alloc::AllocError;

/// Appends by which rule the policy decides: its number and its name, or that none matches.
fn put_by(out: &mut Vec<u8>, rules: &RuleList, by: Option<u16>) -> Result<(), AllocError>
    ensures { IsAppended (by_text rules.now by) out.old out.new result }
{
    let Some(number) = by else {
        return put_slice(out, b" default");
    };
    put_slice(out, b" rule ")?;
    put_decimal(out, number)?;
    put_octet(out, b' ')?;
    put_slice(out, name_at(rules, number).as_bytes())
}

/// Appends what a policy says, and by which rule.
fn put_judged(
    out: &mut Vec<u8>,
    rules: &RuleList,
    is_allowed: bool,
    by: Option<u16>,
) -> Result<(), AllocError>
    ensures { IsAppended (judged_text rules.now is_allowed by) out.old out.new result }
{
    if is_allowed {
        put_slice(out, b"allow")?;
    } else {
        put_slice(out, b"deny")?;
    }
    put_by(out, rules, by)
}

/// Appends what the policy says of an ask, and by which rule: `allow rule 3 all`, `deny rule 1 hide`
/// or `deny default`. `AllocError` if a growth was refused; a front of it may then be there.
pub fn put_verdict(out: &mut Vec<u8>, rules: &RuleList, ask: &Ask) -> Result<(), AllocError>
    ensures { IsAppended (verdict_text rules.now ask.now) out.old out.new result }
{
    put_judged(out, rules, rules.allows(ask), rules.first(ask))
}

/// Appends the line of an ask.
fn put_line(out: &mut Vec<u8>, rules: &RuleList, asked: &Asked) -> Result<(), AllocError>
    ensures { IsAppended (asked_line rules.now asked.now) out.old out.new result }
{
    put_slice(out, b"ask ")?;
    put_ask(out, &asked.source, &asked.verdict.ask)?;
    put_octet(out, b' ')?;
    put_judged(out, rules, asked.verdict.is_allowed, asked.verdict.by)?;
    put_slice(out, quiet_mark(asked.verdict.is_quiet).as_bytes())?;
    put_octet(out, b'\n')
}

/// Appends a line for each ask of an event, allowed or denied, in their order, with the rule that decides it. If there is
/// none it takes no memory. ` (quiet)` follows the name of a quiet rule. If a growth was refused, a part of the lines may
/// be there.
pub fn append_asked(out: &mut Vec<u8>, rules: &RuleList, asked: &[Asked]) -> Result<(), AllocError>
    ensures ok { OnOk result (out.new.items ≡ out.old.items ++ asked_lines rules.now asked.now) }
    ensures silent { asked.now ≡ [] → IsOk result }
    ensures capacity { vec_capacity out.old ≤ vec_capacity out.new }
{
    for ask in asked {
        put_line(out, rules, ask)?;
    }
    Ok(())
}
