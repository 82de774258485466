//! Words that the lines have in common.
ghost use Rattle.std.specs.Prelude.{◌≡◌, ◌++◌, OnOk};
ghost use Rattle.gw_policy_review.specs.permissions.Words.{rule_words};

use crate::places::put_place;
use gw_addr::put_text_number;
use gw_configuration::Config;
use gw_rules::Rule;
use std::alloc::AllocError;

/// A configuration, with the lines of its text on which the tables of its rules begin, or none if they aren't known.
#[derive(Clone, Copy)]
pub(crate) struct Placed<'a> {
    /// The configuration.
    pub config: &'a Config,
    /// The lines.
    pub lines: &'a [u32],
}

impl Placed<'_> {
    /// Appends a rule by its number, from 1, its name and the place of its table.
    pub(crate) fn put_rule(
        &self,
        out: &mut Vec<u8>,
        number: u16,
        rule: &Rule,
    ) -> Result<(), AllocError>
        ensures { OnOk result (out.new.items ≡ out.old.items
            ++ rule_words self.now.config.now self.now.lines.now number rule.now.name) }
    {
        put_text_number(out, "rule ", number)?;
        out.extend_from_slice(b" \"")?;
        out.extend_from_slice(rule.name.as_str().as_bytes())?;
        out.extend_from_slice(b"\"")?;
        put_place(out, self.config.tables(), self.lines, number)
    }
}
