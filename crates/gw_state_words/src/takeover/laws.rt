//! Laws of what is taken over. The functions do nothing: their contracts are the laws.
ghost use Rattle.gw_state.specs.declared.port.SavedPort.{SavedPort};
ghost use Rattle.gw_state.specs.Saved.{SavedObject};
ghost use Rattle.gw_state_words.specs.takeover.Laws.{DefaultsAreAsSaid, DevicesAreCounted, DroppedSlotsAreEmpty, FirstsAreFound};
ghost use Rattle.gw_state_words.specs.takeover.Laws.{FullTablesAreFull, LostObjectsAreLost, LostPortsAreLost, PortsAreAsSaid};
ghost use Rattle.gw_state_words.specs.takeover.Laws.{RoutesAreAsSaid, SlotsAreAsSaid};

/// What is said of a configured port is so of the tables that it takes over. A saved port is said to be
/// dropped exactly if no configured port takes anything over of it. The foreign devices that are said to be
/// kept are as many as the tables that are taken over have.
pub fn ports()
    ensures as_said { PortsAreAsSaid }
    ensures lost { LostPortsAreLost }
    ensures found { FirstsAreFound SavedPort }
    ensures devices { DevicesAreCounted }
{}

/// A route by a port that is there is said to be taken over exactly if it is the one that is kept to its
/// network. If it is said to find no room, 512 networks have a route.
pub fn routes()
    ensures as_said { RoutesAreAsSaid }
    ensures full { FullTablesAreFull }
{}

/// The values of slots that are said to be taken over are those in the slots that the gateway has, in order;
/// those of a configured object that are said to be dropped are those whose slots are empty then.
pub fn slots()
    ensures kept { SlotsAreAsSaid }
    ensures dropped { DroppedSlotsAreEmpty }
{}

/// A default that was written is said to be taken over exactly if the object has it; if none was written,
/// the object has the configured one. A saved object is said to be dropped exactly if no configured object
/// takes anything over of it.
pub fn objects()
    ensures defaults { DefaultsAreAsSaid }
    ensures lost { LostObjectsAreLost }
    ensures found { FirstsAreFound SavedObject }
{}
