//! What a note on broadcasts says, which rules are left out, and the limits of a search. The functions do nothing: their
//! contracts are the laws.
ghost use Rattle.std.specs.Prelude.{◌≡◌};
ghost use Rattle.gw_policy_review.specs.lint.Laws.{NoBroadcastIsAllowed};
ghost use Rattle.gw_policy_review.specs.lint.Text.{OwnRulesAreSaid};

use crate::lint::finding::{ALL_STEPS, MAX_STEPS};

/// Where the note on broadcasts is made, no ask of the shapes to pass a broadcast on is allowed.
pub fn broadcasts()
    ensures { NoBroadcastIsAllowed }
{}

/// One of several searches makes 1,024 steps at most, and those that share steps 262,144: the searches for the findings of a
/// lint, those for its notes, and those for the lines of who may do what.
pub fn limits()
    ensures one { MAX_STEPS ≡ 1024 }
    ensures all { ALL_STEPS ≡ 262144 }
{}

/// A lint leaves out no rule of a table of its own.
pub fn own_rules()
    ensures { OwnRulesAreSaid }
{}
