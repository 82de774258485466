//! What is true of a page. The functions do nothing: their contracts are the laws.

ghost use Rattle.gw_report.specs.page.Laws.{TextsAreHarmless};

/// A text that is put into a page is a row of entities and of octets that aren't `& < > " '` or control characters.
pub fn texts()
    ensures { TextsAreHarmless }
{}
