//! The rules by which the lines of a comparison name what decides.
ghost use Rattle.std.specs.Prelude.{◌≡◌};
ghost use Rattle.gw_policy_review.specs.comparison.Lines.{naming};

use gw_configuration::Config;
use gw_rules::Rule;
use std::marker::Model;

/// The rules of a policy, the positions of their tables, and the lines of the text on which its tables begin, or none if they
/// aren't known.
///
/// Contracts see these three.
pub(crate) struct Names<'a> {
    rules: &'a [Rule],
    tables: &'a [u16],
    lines: &'a [u32],
}

impl<'a> Drop for Names<'a> {
    fn drop(self) {
        let Names {
            rules: _,
            tables: _,
            lines: _,
        } = self;
    }
}

impl<'a> Model for Names<'a> {
    ghost use Rattle.gw_policy_review.specs.comparison.Lines.{Naming};

    ghost Value = { Naming };

    ghost view = { λ n. record { rules = n.rules.now; tables = n.tables.now; lines = n.lines.now } };
}

impl<'a> Names<'a> {
    /// Those of a configuration whose tables begin on these lines.
    pub(crate) fn new(config: &'a Config, lines: &'a [u32]) -> Names<'a>
        ensures { result ≡ naming config.now lines.now }
    {
        Names {
            rules: config.rules().rules(),
            tables: config.tables(),
            lines,
        }
    }

    /// The rules.
    pub(crate) fn rules(&self) -> &[Rule]
        ensures { result.now ≡ self.now.rules }
    {
        self.rules
    }

    /// The positions of their tables, from 0.
    pub(crate) fn tables(&self) -> &[u16]
        ensures { result.now ≡ self.now.tables }
    {
        self.tables
    }

    /// The lines of the text, from 1, on which its tables begin.
    pub(crate) fn lines(&self) -> &[u32]
        ensures { result.now ≡ self.now.lines }
    {
        self.lines
    }
}
