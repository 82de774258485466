//! Laws of the definitions that the contracts cite. The functions change nothing and answer
//! nothing: their contracts are the laws.

ghost use Rattle.gw_codecs.specs.tags.Laws.{TagsArePrefixFree, CanonicalEncodes, CanonicalIsShortest, CanonicalIsRead, ObjectsAreRead, ObjectsAreEncoded, ValuesArePrefixFree, ValueEncodingEncodes, ValueEncodingIsShortest, UnsignedIsRead, SignedIsRead, TagAtIsTag, ValueAtIsValue, ListsHaveOneReading};

/// What holds of all encodings of tags (clause 20.2.1).
pub fn tags()
    ensures prefix_free { TagsArePrefixFree }
    ensures encodes { CanonicalEncodes }
    ensures shortest { CanonicalIsShortest }
    ensures read { CanonicalIsRead }
    ensures exact { TagAtIsTag }
{}

/// An object identifier and its four octets are one to one (clause 20.2.14).
pub fn objects()
    ensures read { ObjectsAreRead }
    ensures encoded { ObjectsAreEncoded }
{}

/// What holds of all encodings of values (clause 20.2).
pub fn values()
    ensures prefix_free { ValuesArePrefixFree }
    ensures encodes { ValueEncodingEncodes }
    ensures shortest { ValueEncodingIsShortest }
    ensures exact { ValueAtIsValue }
    ensures lists { ListsHaveOneReading }
{}

/// A number written in the fewest octets is read again (clauses 20.2.4 and 20.2.5).
pub fn numbers()
    ensures unsigned { UnsignedIsRead }
    ensures signed { SignedIsRead }
{}
