//! Laws of the tables. Each function does nothing: its contract is the laws.
ghost use Rattle.gw_rules.specs.declared.format.Format.{Format};
ghost use Rattle.gw_policy_text.specs.keys.Laws.{AreCounted, AreFew, HasEleven, HaveOneLength, IsBefore, KnowsNoOther, NamesNoSets};

/// In formats 1 and 2 the keys of format 3 are unknown, there are eleven operations, and a rule has the same
/// fault whatever sets there are.
#[tactic(auto, using(crate::proofs::keys_lemmas::Before::knows_no_other, crate::proofs::keys_lemmas::Before::has_eleven, crate::proofs::keys_lemmas::Before::names_no_sets))]
pub fn before()
    ensures keys { (format : Format) → IsBefore format → KnowsNoOther format }
    ensures operations { (format : Format) → IsBefore format → HasEleven format }
    ensures sets { (format : Format) → IsBefore format → NamesNoSets format }
{}

/// Items are read to as many ranges as are counted of them, and to 256 at most if they have no fault.
#[tactic(auto, using(crate::proofs::keys_lemmas::Counted::are_counted, crate::proofs::keys_lemmas::Counted::are_few))]
pub fn counts()
    ensures counted { AreCounted }
    ensures few { AreFew }
{}

/// No range of stations that an item names holds keys of stations of two lengths.
#[tactic(auto, using(crate::proofs::keys_lemmas::Lengths::have_one_length))]
pub fn lengths()
    ensures { HaveOneLength }
{}
