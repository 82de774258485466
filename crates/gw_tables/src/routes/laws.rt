//! Laws of the table of routes (clause 6), of every table and every history. The functions do
//! nothing: their contracts are the laws.
ghost use Rattle.std.specs.Prelude.{◌≡◌};
ghost use Rattle.gw_tables.specs.routes.Laws.{EachIsLearnedOnce, NamedAreLearned, PlacesAreKept};
ghost use Rattle.gw_tables.specs.routes.Laws.{EachIsNewOnce, FixedWaysStay, LastLearningHolds};
ghost use Rattle.gw_tables.specs.routes.Laws.{NewNetworksAreNamed, NewNetworksGoLast, NewNetworksWereUnknown};

use crate::routes::{EVERYWHERE, MAX_ROUTES};

/// The limit is 512 routes, and 65535 represents all networks (clause 6.2.2).
pub fn limits()
    ensures routes { MAX_ROUTES ≡ 512 }
    ensures everywhere { EVERYWHERE ≡ 65535 }
{}

/// The learned networks are those that were granted, in the order of their first grants, each with
/// the port and next router of its last.
pub fn learned_networks()
    ensures each_once { EachIsLearnedOnce }
    ensures named { NamedAreLearned }
    ensures places { PlacesAreKept }
    ensures last { LastLearningHolds }
{}

/// A learned route never takes the place of a direct network or of a configured route.
pub fn fixed_ways()
    ensures { FixedWaysStay }
{}

/// What a table learns for the first time goes after what it had: networks of the list that it didn't know, each
/// once.
pub fn new_networks()
    ensures last { NewNetworksGoLast }
    ensures once { EachIsNewOnce }
    ensures unknown { NewNetworksWereUnknown }
    ensures named { NewNetworksAreNamed }
{}
