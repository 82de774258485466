//! What the lines on rules say of asks. The functions do nothing: their contracts are the laws.
ghost use Rattle.gw_policy_review.specs.permissions.Laws.{EachAskIsAllowed, HiddenIsNotRead, NoAskIsAllowed, NoneIsLet};
ghost use Rattle.gw_policy_review.specs.permissions.Laws.{OnlyExceptionsDeny, OnlyLettingAllow, OnlyListedAllow, OnlyUsedUpIsUnknown};
ghost use Rattle.gw_policy_review.specs.permissions.Laws.{SomeAreAllowed};

/// An ask that is looked at by ranges alone is allowed only by a rule that may allow some: if there is none, no such ask is allowed.
pub fn others()
    ensures listed { OnlyListedAllow }
    ensures none { NoAskIsAllowed }
{}

/// An ask that is reported on is allowed only by a rule that has a line: if there is none, no such ask is allowed.
pub fn lines()
    ensures letting { OnlyLettingAllow }
    ensures none { NoneIsLet }
{}

/// A rule that is reported to let some do it allows such an ask.
pub fn some()
    ensures { SomeAreAllowed }
{}

/// A rule that is reported to let everyone do it allows each such ask.
pub fn everyone()
    ensures { EachAskIsAllowed }
{}

/// An ask that the rule of a line matches is allowed, unless a rule that the line names denies it.
pub fn exceptions()
    ensures { OnlyExceptionsDeny }
{}

/// An object that the policy hides from every source of a network has its line, unless the search used up its steps.
pub fn hidden()
    ensures { HiddenIsNotRead }
{}

/// Of an ask of which a line or a note speaks nothing is known only if the search for it made 1,024 steps, or all that were left.
pub fn unknown()
    ensures { OnlyUsedUpIsUnknown }
{}
