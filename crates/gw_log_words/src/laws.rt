//! Laws of the words of lines, and of their fields. The functions change nothing and answer nothing: their contracts are the laws.

ghost use Rattle.std.specs.Prelude.{ℕ, List};
ghost use Rattle.gw_log_words.specs.LastDenial.{FindsLast, HidesNothing};
ghost use Rattle.gw_log_words.specs.Laws.{AreFields, SaysAllowed, StaysAsBefore};
ghost use Rattle.gw_log_words.specs.Translation.{TranslatesEach, TranslatesOnce, TranslatesWords};

/// Nothing is lost, and nothing is made up: a line has one text; and the text for a denial's line
/// is the words of that denial, or of what was allowed, after the moment of its tick if it is known when the log began.
pub fn translating()
    ensures once { TranslatesOnce }
    ensures each { TranslatesEach }
    ensures words { TranslatesWords }
{}

/// Which fields are looked for; the line of a denial is read as it was, since it is its own fields; and a record of an audit
/// says that the ask was allowed.
pub fn fields()
    ensures are { (text : List ℕ) → AreFields text }
    ensures before { StaysAsBefore }
    ensures audit { SaysAllowed }
{}

/// Which denial a log shows last: it is found whatever comes before it, and whatever lines follow that show none; and what is in
/// front of it in its line, as a stamp is, doesn't hide it.
pub fn last_denial()
    ensures finds { FindsLast }
    ensures front { HidesNothing }
{}
