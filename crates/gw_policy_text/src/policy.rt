//! What the policy of a configuration is read to: its rules, what is written with them, its sets and assertions.
ghost use Rattle.std.specs.Prelude.{◌≡◌, ◌≤◌, ◌||◌, ◌==◌, [], length, map, IfOk, IsTrue};
ghost use Rattle.gw_addr.specs.Reading as plain;
ghost use Rattle.toml.specs.View.{table_view, view};
ghost use Rattle.gw_rules.specs.Format.{names_stations};
ghost use Rattle.gw_rules.specs.RuleList.{keeps_counts};
ghost use Rattle.gw_configuration.specs.Configuration.{is_plain, keeps_assertions, keeps_rules};
ghost use Rattle.gw_rules.specs.declared.format.Format.TheVariants as formats;
ghost use Rattle.gw_configuration.specs.Reading.{Finds, Gives};
ghost use Rattle.gw_policy_text.specs.Policy.{assertion_tables, long_tables, policy_at, policy_of};

use crate::assertions::assertions;
use crate::listing::listing_at;
use crate::reading::{any_list, list_at};
use crate::sets::sets;
use gw_configuration::{ConfigFault, Format, Located, MAX_ASSERTIONS, Policing};
use gw_rules::{MAX_RULES, Rule, RuleList};
use std::alloc::Global;
use toml::{Table, Value};

/// The policy that the tables say, or the first fault with its place.
pub(crate) fn policy_at<'a>(
    alloc: Global,
    format: Format,
    top: &'a Table,
) -> Result<Policing, Located<'a>>
    ensures policy { Finds (λ p. p) result (policy_at format (table_view top.now)) }
    ensures kept { IfOk result (λ p. IsTrue (keeps_rules format p)) }
    ensures asserted { IfOk result (λ p. IsTrue (keeps_assertions p.assertions)) }
    ensures plain { IfOk result (λ p. IsTrue (names_stations format || is_plain [] p)) }
{
    let tables = list_at(0, MAX_RULES, "rule", top)?;
    let items = long_tables(format, "set", top)?;
    let asserted = assertion_tables(format, "assert", top)?;
    let sets = sets(alloc, tables, asserted, items)?;
    let listing = listing_at(alloc, format, items, tables)?;
    let (rules, places, notes, audits) = listing.into_parts();
    let rules = policy_of(format, rules)?;
    let assertions = assertions(alloc, items, asserted)?;
    Ok(Policing {
        rules,
        tables: places,
        notes,
        audits,
        written: tables.len() as u16,
        sets,
        assertions,
    })
}

/// The tables at a key of format 3.
fn long_tables<'a>(format: Format, key: &str, top: &'a Table) -> Result<&'a [Value], ConfigFault>
    ensures tables { plain.Gives (λ vs. map view vs.now) result (long_tables format key.now (table_view top.now)) }
    ensures plain { IfOk result (λ vs. IsTrue (names_stations format || (length vs.now == 0))) }
{
    if format.names_stations() {
        any_list(key, top)
    } else {
        Ok(&[])
    }
}

/// The tables of the assertions, at most 512 of them.
fn assertion_tables<'a>(
    format: Format,
    key: &str,
    top: &'a Table,
) -> Result<&'a [Value], ConfigFault>
    ensures tables { plain.Gives (λ vs. map view vs.now) result (assertion_tables format key.now (table_view top.now)) }
    ensures most { IfOk result (λ vs. length vs.now ≤ 512) }
    ensures plain { IfOk result (λ vs. IsTrue (names_stations format || (length vs.now == 0))) }
{
    if format.names_stations() {
        list_at(0, MAX_ASSERTIONS, key, top)
    } else {
        Ok(&[])
    }
}

/// The rules as a policy.
fn policy_of(format: Format, rules: Vec<Rule>) -> Result<RuleList, ConfigFault>
    ensures policy { Gives (λ rs. rs) result (policy_of format rules.items) }
    ensures same { IfOk result (λ rs. rs ≡ rules.items) }
    ensures short { IfOk result (λ rs. IsTrue (names_stations format || keeps_counts rs)) }
{
    if format.names_stations() {
        long_policy_of(rules)
    } else {
        short_policy_of(rules)
    }
}

fn long_policy_of(rules: Vec<Rule>) -> Result<RuleList, ConfigFault>
    ensures policy { Gives (λ rs. rs) result (policy_of formats.Three rules.items) }
    ensures same { IfOk result (λ rs. rs ≡ rules.items) }
{
    let list = RuleList::new_long(rules)?;
    Ok(list)
}

fn short_policy_of(rules: Vec<Rule>) -> Result<RuleList, ConfigFault>
    ensures policy { Gives (λ rs. rs) result (policy_of formats.One rules.items) }
    ensures same { IfOk result (λ rs. rs ≡ rules.items) }
    ensures short { IfOk result (λ rs. IsTrue (keeps_counts rs)) }
{
    let list = RuleList::new(rules)?;
    Ok(list)
}
