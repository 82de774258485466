//! Laws of the list. The function changes nothing and answers nothing: its contract is the laws.

ghost use Rattle.gw_report.specs.points.Laws.{ColumnsAreSixteen, NamesAreFound, RowsAreFound};

/// A reader of separated values finds the rows of the list in its text, whatever the texts of the configuration are; each
/// line of an object has sixteen cells, as the line of the columns; and its third is the object's name, but for the
/// apostrophe.
pub fn reading()
    ensures rows { RowsAreFound }
    ensures columns { ColumnsAreSixteen }
    ensures names { NamesAreFound }
{}
