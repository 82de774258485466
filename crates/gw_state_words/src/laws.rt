//! The law of the words. The function does nothing: its contract is the law.
ghost use Rattle.gw_state_words.specs.Laws.{TextsArePrintable};

/// What is shown of a text has only printable characters of ASCII, whatever octets the text has.
pub fn texts()
    ensures { TextsArePrintable }
{}
