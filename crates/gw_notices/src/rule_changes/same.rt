//! Whether two rules are one.

ghost use Rattle.std.specs.Prelude.{◌≡◌};
ghost use Rattle.std.specs.List.{list_any};
ghost use Rattle.gw_notices.specs.rule_changes.Changes.{is_among, same_rule};

use gw_configuration::sameness::Same;
use gw_rules::Rule;

/// Whether two rules are one: they have the same name, the same action, are both quiet or neither, and have the same ranges
/// for each field.
pub(crate) fn same_rule(a: &Rule, b: &Rule) -> bool
    ensures { result ≡ same_rule a.now b.now }
{
    a.is_same(b)
}

/// Whether a rule is one of these.
pub(crate) fn is_among(rules: &[Rule], rule: &Rule) -> bool
    ensures { result ≡ is_among rules.now rule.now }
{
    rules.iter().any(|other| same_rule(rule, other))
}
