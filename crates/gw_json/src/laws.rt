//! Laws of the lines. The functions change nothing and answer nothing: their contracts are the laws.

ghost use Rattle.gw_json.specs.Laws.{AnswersRead, AnswersStay, ChecksRead, ComparisonsRead, DenialsRead, DenialsStay, DifferencesRead};
ghost use Rattle.gw_json.specs.Laws.{DifferencesStay, FaultsRead, GivenUpRead, OthersRead, PairedRead, PairsRead, RecordsAllowed};
ghost use Rattle.gw_json.specs.Laws.{RegionsStay, SummariesRead};

/// A reader of JSON reads each line as the object that it is: nothing that a line of the log, a note or a rule's name has
/// can end a string or a line, or begin another member. So it is with the lines of a log, of answers, of a comparison and of a
/// check.
pub fn reading()
    ensures denials { DenialsRead }
    ensures others { OthersRead }
    ensures answers { AnswersRead }
    ensures comparisons { ComparisonsRead }
    ensures summaries { SummariesRead }
    ensures pairs { PairsRead }
    ensures paired { PairedRead }
    ensures given_up { GivenUpRead }
    ensures differences { DifferencesRead }
    ensures checks { ChecksRead }
    ensures faults { FaultsRead }
{}

/// The answer to an ask has no member more where the rule that decides it isn't quiet.
pub fn answers()
    ensures { AnswersStay }
{}

/// The first line of a comparison has no member more where nothing is said of assertions.
pub fn differences()
    ensures { DifferencesStay }
{}

/// The lines of what is found are those of regions alone where no pairs are looked for.
pub fn regions()
    ensures { RegionsStay }
{}

/// The object of a denial's line with nothing in front has what the line shows and that it was denied, and no more; that of a
/// record of an audit says that the ask was allowed.
pub fn log()
    ensures denials { DenialsStay }
    ensures audit { RecordsAllowed }
{}
