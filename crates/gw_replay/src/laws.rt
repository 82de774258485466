//! Laws of what a replay writes. The functions do nothing: their contracts are the laws.

ghost use Rattle.gw_replay.specs.Laws.{AnnouncementsChangeNothing, DeniedLinesAreLogged, RunsAreWritten, UnannouncedAreEvents};

/// What a replay writes: of each run the text of its effects. And where it explains, the lines of the asks that the
/// policy denies, but by quiet rules, are those of the denials.
pub fn replays()
    ensures wording { RunsAreWritten }
    ensures denied { DeniedLinesAreLogged }
{}

/// The line `announce`: a configuration that doesn't announce knows none, so its scripts write events alone. And it changes nothing:
/// what comes after it is done as if it weren't there.
pub fn announcements()
    ensures unannounced { UnannouncedAreEvents }
    ensures unchanged { AnnouncementsChangeNothing }
{}
