//! The counts, in lines.

ghost use Rattle.std.specs.Prelude.{◌≡◌, ◌++◌, ◌+◌, length, IsOk, OnOk};
ghost use Rattle.std.specs.Io.KnownBytes.{Appends};
ghost use Rattle.gw_script.specs.Order.{in_order};
ghost use Rattle.gw_decisions.specs.tally.Tally.{line_in, rule_line, tally_text};

use crate::tally::tally::Tally;
use gw_rules::{Rule, RuleList, quiet_mark};
use gw_script::{OctetSink, WriteFailed, write_count, write_count_line, write_whole};
use std::alloc::AllocError;

/// Appends the lines of [`write_tally`]. An `Err` only if a growth of memory was refused.
pub fn put_tally(rules: &RuleList, tally: &Tally, out: &mut Vec<u8>) -> Result<(), AllocError>
    requires { length tally.now ≡ length rules.now + 1 }
    ensures { OnOk result (out.new.items ≡ out.old.items ++ tally_text rules.now tally.now) }
{
    match write_tally(rules, tally, out) {
        Ok(()) => Ok(()),
        Err(_) => Err(AllocError),
    }
}

/// Writes a line for each rule, in order, those that decide no ask too, and one for the asks that no rule decides.
///
/// ```text
/// rule 1 hide: 12
/// rule 2 hush (quiet): 17
/// rule 3 all: 1201
/// default: 3
/// ```
///
/// `WriteFailed` only after a failed write. It takes no memory.
pub fn write_tally<S: OctetSink>(
    rules: &RuleList,
    tally: &Tally,
    sink: &mut S,
) -> Result<(), WriteFailed>
    requires { length tally.now ≡ length rules.now + 1 }
    ensures ok { OnOk result (Appends (S.held sink.old) (S.held sink.new) (tally_text rules.now tally.now)) }
    ensures sure { S.NeverFails sink.old → IsOk result }
    ensures lasts { S.NeverFails sink.old → S.NeverFails sink.new }
{
    write_rules(rules.rules(), tally, sink)?;
    write_count_line(sink, "default: ", u128::from(tally.count(0)))
}

/// Writes how many asks each rule decided, in order.
fn write_rules<S: OctetSink>(rules: &[Rule], tally: &Tally, sink: &mut S) -> Result<(), WriteFailed>
    requires { length tally.now ≡ length rules.now + 1 }
    ensures ok { OnOk result (Appends (S.held sink.old) (S.held sink.new) (in_order (line_in tally.now) 1 rules.now)) }
    ensures sure { S.NeverFails sink.old → IsOk result }
    ensures lasts { S.NeverFails sink.old → S.NeverFails sink.new }
{
    for place in 0..rules.len() {
        let count = tally.count(place + 1);
        write_rule(place as u64 + 1, &rules[place], count, sink)?;
    }
    Ok(())
}

/// Writes how many asks the rule of this number decided.
fn write_rule<S: OctetSink>(
    number: u64,
    rule: &Rule,
    count: u64,
    sink: &mut S,
) -> Result<(), WriteFailed>
    ensures ok { OnOk result (Appends (S.held sink.old) (S.held sink.new) (rule_line number rule.now count)) }
    ensures sure { S.NeverFails sink.old → IsOk result }
    ensures lasts { S.NeverFails sink.old → S.NeverFails sink.new }
{
    write_count(sink, "rule ", u128::from(number))?;
    write_whole(sink, b" ")?;
    write_whole(sink, rule.name.as_str().as_bytes())?;
    write_whole(sink, quiet_mark(rule.quiet).as_bytes())?;
    write_count_line(sink, ": ", u128::from(count))
}
