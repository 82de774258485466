//! What holds of the texts of all states that fit. The functions do nothing: their contracts are the laws.

ghost use Rattle.gw_state_text.specs.Laws.{TextsAreApart, TextsAreRead, TextsAreShort};

/// The text of each state that fits has at most 2,560,352 octets.
pub fn size()
    ensures { TextsAreShort }
{}

/// The text of each state that fits is read, as that state. So two such states have two texts.
pub fn reading()
    ensures read { TextsAreRead }
    ensures apart { TextsAreApart }
{}
