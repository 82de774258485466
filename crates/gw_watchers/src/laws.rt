//! Laws of a watcher, over any sinks. The functions do nothing: their contracts are the laws.

ghost use Rattle.gw_core.specs.Guard.{LetsAllGo};
ghost use Rattle.gw_watchers.specs.Laws.{AllAreAsked, DifferencesAreSaid, TrialIsDenials, TrialIsDifferences};
ghost use Rattle.gw_watchers.specs.Watching.{HasWatched};

use gw_script::OctetSink;

/// What is recorded of an event: a trial's records are what a log of denials by its rules has, or the asks that its rules decide
/// otherwise than those in force, each behind both verdicts.
pub fn at_each_event()
    ensures trial { TrialIsDenials }
    ensures differences { TrialIsDifferences }
    ensures said { DifferencesAreSaid }
    ensures all { AllAreAsked }
{}

/// A watcher withholds nothing. So beside another guard it changes nothing of a stretch (`gw_turns::laws::two_guards`).
pub fn nothing_withheld<T: OctetSink, A: OctetSink>()
    ensures { LetsAllGo (HasWatched T.held A.held) }
{}
