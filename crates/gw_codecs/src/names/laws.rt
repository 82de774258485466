//! Laws of the tables of names. The functions do nothing: their contracts are the laws.

ghost use Rattle.gw_codecs.specs.names.Laws.{AreWords, IsOneToOne, KnowsNoOther, NamesRows};
ghost use Rattle.gw_codecs.specs.names.Tables.{object_types, properties, services};

/// A number has the name that a row of its table gives it, and no other: no number has two names.
pub fn rows()
    ensures object_types { NamesRows object_types }
    ensures properties { NamesRows properties }
    ensures services { NamesRows services }
{}

/// The number of a name is the one that has this name: the name of a number is read back as that number,
/// and no name has two numbers.
pub fn one_to_one()
    ensures object_types { IsOneToOne object_types }
    ensures properties { IsOneToOne properties }
    ensures services { IsOneToOne services }
{}

/// A text that is no name of a table has no number there.
pub fn other_texts()
    ensures object_types { KnowsNoOther object_types }
    ensures properties { KnowsNoOther properties }
    ensures services { KnowsNoOther services }
{}

/// A name begins with a letter and has letters, digits and hyphens only. So it is no number, and it may have
/// a mark of another kind of text in front of it.
pub fn words()
    ensures object_types { AreWords object_types }
    ensures properties { AreWords properties }
    ensures services { AreWords services }
{}
