//! Laws of what is given of a text. The functions change nothing and answer nothing: their contracts are the laws.

ghost use Rattle.std.specs.Prelude.{ℕ, List};
ghost use Rattle.gw_verdicts.specs.asks.Laws.{EachIsAsk, GivenAgain, PlainStays};

/// What is given of a text is a line for each of its lines that shows an ask, and such a line that has nothing in front stays.
pub fn asks()
    ensures each { (text : List ℕ) → EachIsAsk text }
    ensures plain { (text : List ℕ) → PlainStays text }
    ensures again { (text : List ℕ) → GivenAgain text }
{}
