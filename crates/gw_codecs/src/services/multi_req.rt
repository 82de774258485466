//! What the body of a ReadPropertyMultiple request says (clause 15.7).

ghost use Rattle.std.specs.Prelude.{map};
ghost use Rattle.gw_codecs.specs.services.Multi.{AreNamed, reference_view};

use crate::services::reference::Reference;

/// A ReadPropertyMultiple request: lists of properties, each of one object.
///
/// | Tag | Parameter |
/// |---|---|
/// | 0 | object |
/// | 1 | opening |
/// | 0 | property |
/// | 1 | index, may be absent |
/// | | more properties and indices |
/// | 1 | closing |
/// | | more objects and lists |
#[derive(Debug, Drop)]
pub struct MultiReq {
    /// The properties in the order in which they are asked for.
    pub references: Vec<Reference>,
    /// A body names them: 1 to 128, an object's list begins with the first, and no index is beside
    /// a set.
    pub ghost body: { ∥ AreNamed (map reference_view references.items) ∥₁ },
}
