//! What the words of the relay mean, proved of every change, every history and every table, for a
//! reader of the definitions that contracts here and in the crates above cite. The functions do
//! nothing.
ghost use Rattle.gw_relay.specs.Laws.{AllOnesReachTheManager, BroadcastsAreAsBefore, BroadcastsCarryTheirClaim};
ghost use Rattle.gw_relay.specs.Laws.{ChangesExtendHistories, ClaimingCarriesTheClaim, ConfiguredLinksStand};
ghost use Rattle.gw_relay.specs.Laws.{EnteringCarriesTheLinkSource, EntryAsksReadNothing, EntryIsUnasked};
ghost use Rattle.gw_relay.specs.Laws.{ForgedClaimsAreKeptOut, NetworkMessagesAreAsBefore};
ghost use Rattle.gw_relay.specs.Laws.{NetworkMessagesCarryTheirClaim, NothingIsDeliveredOutside, OwnEntryIsLeftOut};
ghost use Rattle.gw_relay.specs.Laws.{OwnStationsEnterUnasked, RoutersEnterUnasked, RoutesAreKept};
ghost use Rattle.gw_relay.specs.Laws.{RoutingCarriesTheClaim, RoutingIsAsBefore, SenderIsLeftOut};
ghost use Rattle.gw_relay.specs.Laws.{StrangersAreKeptOut, TableAsksReadNothing, TablesAreAsBefore, TablesAreKept};
ghost use Rattle.gw_relay.specs.Laws.{TicksExtendHistories};
ghost use Rattle.gw_relay.specs.Neighbours.{AnnouncementsEnd, AreBareAtFirst, AreBareResumed, BareBroadcasts, EachIsAnnouncedOnce};
ghost use Rattle.gw_relay.specs.Neighbours.{LearningStaysBare, NoTablesBeside, NothingIsDistributedBeside};
ghost use Rattle.gw_relay.specs.Neighbours.{NothingLearnedNothingSent, OnwardIsFirstLearned, OnwardIsGranted};
ghost use Rattle.gw_relay.specs.Neighbours.{OnwardLeavesThePort, PlainBroadcasts, PlainNetworkMessages, PlainTables};
ghost use Rattle.gw_relay.specs.Neighbours.{TablesStayBare, TicksStayBare};
ghost use Rattle.std.specs.Prelude.{◌≡◌};

use crate::{BUFFER_ROOM, KEPT_ROOM};

/// The ports' tables are those of the last granted entries, and of the granted registrations and
/// deletions and the ticks: so they begin, and each change and each tick extends that.
pub fn histories()
    ensures initial { ConfiguredLinksStand }
    ensures changes { ChangesExtendHistories }
    ensures ticks { TicksExtendHistories }
{}

/// Who is left out of a distribution: the own entry of a table always, and the sender of a
/// Distribute-Broadcast-To-Network among the foreign devices. A mask of all ones sends to the
/// broadcast manager itself.
pub fn distribution()
    ensures sender { SenderIsLeftOut }
    ensures own { OwnEntryIsLeftOut }
    ensures all_ones { AllOnesReachTheManager }
{}

/// No table changes and nothing is learned without an ask for it that is allowed; and no ask about a
/// table is to read a property.
pub fn changes()
    ensures tables { TablesAreKept }
    ensures asks { TableAsksReadNothing }
    ensures routes { RoutesAreKept }
{}

/// Every ask of a message is of the source that the message claims, but an ask to enter, which is of the
/// link source on the port's network.
pub fn claims()
    ensures broadcasts { BroadcastsCarryTheirClaim }
    ensures routing { RoutingCarriesTheClaim }
    ensures network_messages { NetworkMessagesCarryTheirClaim }
    ensures entering { EnteringCarriesTheLinkSource }
    ensures claiming { ClaimingCarriesTheClaim }
{}

/// Who is admitted where the format names stations: no stranger and no source that doesn't come by its
/// route, if the rules allow none; a station of the port that speaks for itself, and a router of the port
/// that speaks for a network that lies behind it, without an ask. Nothing is read by that.
pub fn entry()
    ensures strangers { StrangersAreKeptOut }
    ensures claims { ForgedClaimsAreKeptOut }
    ensures stations { OwnStationsEnterUnasked }
    ensures routers { RoutersEnterUnasked }
    ensures reads { EntryAsksReadNothing }
{}

/// A message that is routed as a unicast goes to an address that belongs to the port on which it is sent, to
/// a router of the table, or, as a Reject-Message-To-Network, back to the link source.
pub fn delivery()
    ensures inside { NothingIsDeliveredOutside }
{}

/// Where the format names no stations, the relay asks and does what it did before there was such a format.
pub fn formats()
    ensures tables { TablesAreAsBefore }
    ensures broadcasts { BroadcastsAreAsBefore }
    ensures routing { RoutingIsAsBefore }
    ensures network_messages { NetworkMessagesAreAsBefore }
    ensures entry { EntryIsUnasked }
{}

/// Without another broadcast manager beside a port, and where nothing is announced, the relay asks and does what it did
/// before a port could have one, and before networks were announced.
pub fn plain()
    ensures tables { PlainTables }
    ensures broadcasts { PlainBroadcasts }
    ensures network_messages { PlainNetworkMessages }
{}

/// A port beside another broadcast manager has no tables and distributes nothing: frames for its tables are refused
/// without an ask, whatever is granted it has no peer and no foreign device, and a broadcast by the gateway on it goes to
/// its subnet alone.
pub fn beside_managers()
    ensures tables { NoTablesBeside }
    ensures broadcasts { NothingIsDistributedBeside }
    ensures first { AreBareAtFirst }
    ensures resumed { AreBareResumed }
    ensures granted { TablesStayBare }
    ensures learned { LearningStaysBare }
    ensures ticks { TicksStayBare }
    ensures spread { BareBroadcasts }
{}

/// What is announced onward: on each port but that of the message, networks that an ask to learn was granted for and that
/// the table didn't know, and nothing if there is none. So announcements end in a plant of any shape: each gateway announces
/// a network onward once, however often it hears of it.
pub fn announcements()
    ensures elsewhere { OnwardLeavesThePort }
    ensures granted { OnwardIsGranted }
    ensures nothing { NothingLearnedNothingSent }
    ensures learned { OnwardIsFirstLearned }
    ensures end { AnnouncementsEnd }
    ensures once { EachIsAnnouncedOnce }
{}

/// A buffer for a message has room for at least 1,000 octets, and one that is kept for at most 4,096.
pub fn limits()
    ensures buffer { BUFFER_ROOM ≡ 1000 }
    ensures kept { KEPT_ROOM ≡ 4096 }
{}
