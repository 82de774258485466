//! What is true of the text of metrics, and of the ticks at which it is written. The functions do nothing: their contracts are the laws.

ghost use Rattle.gw_notices.specs.metrics.Laws.{CountersAreTotals, FamiliesAreOnce, LinesHaveNoFeed, NamesDiffer, OnlyEscapesAreRead};
ghost use Rattle.gw_notices.specs.metrics.Laws.{SamplesAreUnderTheirFamily, TextIsLines, ValuesAreReadBack};
ghost use Rattle.gw_notices.specs.metrics.Writing.{TicksAreMetered, TicksKeepRecent, TriesAreMetered};

use gw_wire::Store;

/// What a collector reads of an escaped value is the value, and it reads nothing else as one.
pub fn values()
    ensures back { ValuesAreReadBack }
    ensures only { OnlyEscapesAreRead }
{}

/// The text is lines without other line feeds. Each is of the family whose help comes before it, and no family comes twice.
pub fn lines()
    ensures lines { TextIsLines }
    ensures feeds { LinesHaveNoFeed }
    ensures under { SamplesAreUnderTheirFamily }
    ensures once { FamiliesAreOnce }
{}

/// Each family has a name of its own, and the names of counters alone end in `_total`.
pub fn names()
    ensures differ { NamesDiffer }
    ensures totals { CountersAreTotals }
{}

/// After each tick the last try was fewer than ten ticks ago.
pub fn ticks<S: Store>()
    ensures { TicksKeepRecent S.held }
{}

/// What is known of tries without what is written: at each tick one is made if it is due, and it fails or doesn't.
pub fn tries<S: Store>()
    ensures ticks { TicksAreMetered S.held }
    ensures tries { TriesAreMetered S.held }
{}
