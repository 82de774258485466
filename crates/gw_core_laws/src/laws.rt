//! Laws of the definitions, and worked examples of them. The functions do nothing: their contracts are the laws.

ghost use Rattle.std.specs.Prelude.{◌≡◌};
ghost use Rattle.gw_core_laws.specs.Decisions.{SameDecisionsDoAlike, SameDecisionsRunAlike, SameDecisionsRunSendAlike};
ghost use Rattle.gw_core_laws.specs.Decisions.{SameDecisionsSendAlike};
ghost use Rattle.gw_core_laws.specs.Examples.{AllArePlaced, BroadcastIsDistributed, CountsEnd, DeniedSetIsRefused, DeniedTableIsRefused};
ghost use Rattle.gw_core_laws.specs.Examples.{DeniedWriteIsUnseen, DenialsAreCountedOn, EachCutIsDropped, GlobalWhoIsGoesOn};
ghost use Rattle.gw_core_laws.specs.Examples.{HiddenObjectIsUnnamed, HiddenReadIsDenied, HiddenWriteIsUnseen, HidingIsSeen};
ghost use Rattle.gw_core_laws.specs.Examples.{LearnedRouteIsTaken, LocalReadIsUnheard, ReadIsAnswered, RegistrationEnds, RelinquishIsSeen};
ghost use Rattle.gw_core_laws.specs.Examples.{RoutedReadIsAnswered, UnknownNetworkIsSought, UnknownObjectIsNamed, WhoIsIsAnswered};
ghost use Rattle.gw_core_laws.specs.Examples.{WriteIsSeen, WrongLengthsAreDropped};
ghost use Rattle.gw_core_laws.specs.Keys.{NoKeyStaysNone, ShortKeysAreThoseOfTwo, ShortRulesDecideAsBefore, ShortRulesHideAsBefore};
ghost use Rattle.gw_core_laws.specs.Keys.{SixOctetsKeepTheirKey};
ghost use Rattle.gw_core_laws.specs.Quiet.{NoQuietIsAsBefore, NoQuietRunsAsBefore, QuietRulesLogLess, QuietRulesRunLogLess};
ghost use Rattle.gw_core_laws.specs.Reasons.{DropsHaveReasons};
ghost use Rattle.gw_core_laws.specs.FormatThree.{AsksNameTheirSender, AsksNameTheirStation, FormatThreeIsAsTwo, FormatThreeRunsAsTwo};
ghost use Rattle.gw_core_laws.specs.NoLeak.{AnnouncementsAreUnread, AsksCarryTheirClaim, AsksHaveTheirOrigin, QuietIsUnseen};
ghost use Rattle.gw_core_laws.specs.NoLeak.{WritesAreHidden, WritesAreUnread};
ghost use Rattle.gw_core_laws.specs.Onward.{AnnouncementsGoUnread, DenialsGoOn, FormatOneGoesOn, FormatStaysOn, FormatThreeGoesOn};
ghost use Rattle.gw_core_laws.specs.Onward.{FormatTwoGoesOn, LogGoesOn, PlainGoesOn, QuietGoesUnseen, TicksGoOn, WritesGoHidden};
ghost use Rattle.gw_core_laws.specs.Onward.{WritesGoUnread};
ghost use Rattle.gw_core_laws.specs.Laws.{ActsLeaveTheTables, AllowedTrafficIsSent, ConfigurationStays, DeniedAsksAreLogged};
ghost use Rattle.gw_core_laws.specs.Laws.{DeniedBroadcastsAreKept, DeniedReadsAreRefused, DeniedWritesAreRefused, DenialsAreCounted};
ghost use Rattle.gw_core_laws.specs.Laws.{DenialsHaveTheirTick, DroppedNeedsNoMemory, FormatOneIsAsBefore, FormatOneRunsAsBefore};
ghost use Rattle.gw_core_laws.specs.Laws.{FormatStays, FormatTwoIsAsBefore, FormatTwoRunsAsBefore};
ghost use Rattle.gw_core_laws.specs.Neighbours.{CarriedPortsAreBare, EachNetworkIsOnce, EventsLeaveThemBare, OwnNetworksAreUnnamed};
ghost use Rattle.gw_core_laws.specs.Neighbours.{PlainIsAsBefore, PlainRunsAsBefore, PortsAreBare, TwoGatewaysStop};
ghost use Rattle.gw_core_laws.specs.Laws.{FirstFormatsArePlain, FormatWasUnread, NoDeliveryOutside, NoForgedClaim, NoStranger};
ghost use Rattle.gw_core_laws.specs.Laws.{LearningsLeaveTheRoutes, LogIsNumbered, NothingAskedIsChanged, NothingAskedIsLogged};
ghost use Rattle.gw_core_laws.specs.Laws.{NothingAskedIsWritten, PortsStay, RelayTicksAreCounted, RunsExtendHistories};
ghost use Rattle.gw_core_laws.specs.Laws.{StepsExtendHistories, TicksAreCounted, TicksOnlyCount, WritesLeaveTheSlots};
ghost use Rattle.gw_core_laws.specs.Refused.{DeniedListingsAreSilent, DeniedManagementIsRefused, DeniedMembersAreRefused};
ghost use Rattle.gw_core_laws.specs.Refused.{DeniedPropertiesAreRefused, OthersAreAnswered, RepliesAreTheirParts};

use gw_relay::laws::{delivery, entry};

/// What holds after every history: each step extends it, and so does each list of events; the ports'
/// tables, the routes, and the slots and the defaults of the device are what the acts left that it
/// granted; and the ports and what is configured of the device stay.
pub fn histories()
    ensures steps { StepsExtendHistories }
    ensures runs { RunsExtendHistories }
    ensures tables { ActsLeaveTheTables }
    ensures routes { LearningsLeaveTheRoutes }
    ensures slots { WritesLeaveTheSlots }
    ensures ports { PortsStay }
    ensures configuration { ConfigurationStays }
{}

/// What an event does, in plain words: a tick sends nothing and only counts; the log has exactly the asks that the
/// policy denies, but those of its quiet rules, each under the first rule that matches and with the ticks of its moment; a
/// denied read or write is answered by its access error, and changes nothing.
pub fn events()
    ensures ticks { TicksOnlyCount }
    ensures silent { NothingAskedIsLogged }
    ensures log { DeniedAsksAreLogged }
    ensures moments { DenialsHaveTheirTick }
    ensures refused { DeniedReadsAreRefused }
    ensures unwritten { DeniedWritesAreRefused }
    ensures unasked { NothingAskedIsWritten }
    ensures unchanged { NothingAskedIsChanged }
    ensures dropped { DroppedNeedsNoMemory }
    ensures traffic { AllowedTrafficIsSent }
    ensures kept { DeniedBroadcastsAreKept }
{}

/// Why a datagram is dropped before the policy is asked: it is dropped exactly if it has a reason, and each reason
/// that is counted is one of three: it can't be read, it names a source on a network of the gateway's own, or it is
/// forwarded by someone who is no peer.
pub fn drops()
    ensures { DropsHaveReasons }
{}

/// What is answered where the policy denies: in a ReadPropertyMultiple the access error in the place of each denied
/// property, whatever the object holds, and the others as ever; nothing to a Who-Is or Who-Has; and to a frame that
/// manages a table the negative code of its function, which changes nothing.
pub fn refusals()
    ensures parts { RepliesAreTheirParts }
    ensures properties { DeniedPropertiesAreRefused }
    ensures others { OthersAreAnswered }
    ensures members { DeniedMembersAreRefused }
    ensures listings { DeniedListingsAreSilent }
    ensures tables { DeniedManagementIsRefused }
{}

/// What the format of a policy changes. Under a configuration of the first format every list of events asks and does
/// what a definition without formats says, and leaves its state; under the first or the second, what a definition
/// without the third says (in these no port has another broadcast manager beside it, and nothing is announced); and no
/// event changes the format of the configuration. Under the third, if no port has stations
/// and no rule names a sender or a station, every event whose asks to claim are allowed, that is no broadcast of a
/// request that reads or writes properties, and whose source has the same key in both formats, does what it does under the
/// second, but for the sender and the station of each ask: the sender is that of the datagram, the station the one for which the
/// message is bound.
pub fn formats()
    ensures first { FormatOneIsAsBefore }
    ensures runs { FormatOneRunsAsBefore }
    ensures unread { FormatWasUnread }
    ensures second { FormatTwoIsAsBefore }
    ensures second_runs { FormatTwoRunsAsBefore }
    ensures third { FormatThreeIsAsTwo }
    ensures third_runs { FormatThreeRunsAsTwo }
    ensures senders { AsksNameTheirSender }
    ensures stations { AsksNameTheirStation }
    ensures stays { FormatStays }
    ensures plain { FirstFormatsArePlain }
{}

/// What the keys `bbmd` and `announce` change. Under a configuration without them every list of events asks and does what a
/// definition without them says, and leaves its state. And a port beside another broadcast manager never has a peer or a
/// foreign device: not after any history, nor in a gateway that takes over what was saved. No announcement names what lies
/// by its own port; and what two gateways announce to each other comes to an end.
pub fn neighbours()
    ensures plain { PlainIsAsBefore }
    ensures runs { PlainRunsAsBefore }
    ensures bare { PortsAreBare }
    ensures carried { CarriedPortsAreBare }
    ensures events { EventsLeaveThemBare }
    ensures own { OwnNetworksAreUnnamed }
    ensures once { EachNetworkIsOnce }
    ensures stop { TwoGatewaysStop }
{}

/// What the third format keeps out. If the rules allow nobody to claim, whoever names a source network that doesn't
/// lie behind him does nothing but be denied; if they allow nobody to enter, so does whoever doesn't belong to the
/// port that he reaches. And what is routed as a unicast stays inside: it goes to a station of the port on which it is
/// sent, to a router of the table, or, as a Reject-Message-To-Network, back to where the message came from.
pub fn stations()
    ensures claims { NoForgedClaim }
    ensures strangers { NoStranger }
    ensures inside { NoDeliveryOutside }
{
    entry();
    delivery();
}

/// Other rules that decide and log as those of a gateway whatever an event asks do the same: they ask, send and deny the
/// same, if perhaps by a rule of another name, and leave the same state. So they do whatever comes, one event after the
/// other. And if they decide the same, whatever they log, they ask and send the same, and leave the same state but for the
/// number of the last denial.
pub fn decisions()
    ensures events { SameDecisionsDoAlike }
    ensures runs { SameDecisionsRunAlike }
    ensures sent { SameDecisionsSendAlike }
    ensures sent_runs { SameDecisionsRunSendAlike }
{}

/// What quiet rules change. Where no rule is quiet, every list of events does what it did before there was the word. And
/// with quiet rules it asks, sends and leaves what it does under the same rules without the word, but for the number of the
/// last denial; the log is that one without the denials by quiet rules, numbered on.
pub fn quiet()
    ensures before { NoQuietIsAsBefore }
    ensures runs_before { NoQuietRunsAsBefore }
    ensures events { QuietRulesLogLess }
    ensures runs { QuietRulesRunLogLess }
{}

/// What the keys of stations of other lengths than six change. A station of six octets has the key under the third format
/// that it has under the first two, and one that has none under the third has none under them. A policy whose ranges of
/// source keys and stations all end below 2 to the power of 48 decides each ask by the rule by which it does with the keys of
/// the first two formats, and hides what it hides with them.
pub fn keys()
    ensures six { SixOctetsKeepTheirKey }
    ensures none { NoKeyStaysNone }
    ensures short { ShortKeysAreThoseOfTwo }
    ensures decided { ShortRulesDecideAsBefore }
    ensures hidden { ShortRulesHideAsBefore }
{}

/// What a gateway counts, whatever it is configured with and whatever comes.
pub fn counts()
    ensures ticks { TicksAreCounted }
    ensures relay { RelayTicksAreCounted }
    ensures denials { DenialsAreCounted }
    ensures log { LogIsNumbered }
{}

/// What holds from any state on, whatever came before it, also in a gateway that took over what another one left under another
/// configuration: what it counts, what the formats and the keys `bbmd` and `announce` change, and what peers don't learn of one
/// another.
pub fn onward()
    ensures ticks { TicksGoOn }
    ensures denials { DenialsGoOn }
    ensures log { LogGoesOn }
    ensures first { FormatOneGoesOn }
    ensures second { FormatTwoGoesOn }
    ensures third { FormatThreeGoesOn }
    ensures stays { FormatStaysOn }
    ensures plain { PlainGoesOn }
    ensures hidden { WritesGoHidden }
    ensures unread { WritesGoUnread }
    ensures quiet { QuietGoesUnseen }
    ensures announced { AnnouncementsGoUnread }
{}

/// What frames do to a gateway of the built-in configuration, computed from the definitions.
pub fn worked_examples()
    ensures read_is_answered { ReadIsAnswered }
    ensures hidden_read_is_denied { HiddenReadIsDenied }
    ensures local_read_is_unheard { LocalReadIsUnheard }
    ensures hidden_object_is_unnamed { HiddenObjectIsUnnamed }
    ensures unknown_object_is_named { UnknownObjectIsNamed }
    ensures each_cut_is_dropped { EachCutIsDropped }
    ensures wrong_lengths_are_dropped { WrongLengthsAreDropped }
    ensures routed_read_is_answered { RoutedReadIsAnswered }
    ensures counts_end { CountsEnd }
    ensures denials_are_counted_on { DenialsAreCountedOn }
    ensures write_is_seen { WriteIsSeen }
    ensures relinquish_is_seen { RelinquishIsSeen }
    ensures denied_write_is_unseen { DeniedWriteIsUnseen }
    ensures all_are_placed { AllArePlaced }
    ensures denied_set_is_refused { DeniedSetIsRefused }
    ensures denied_table_is_refused { DeniedTableIsRefused }
    ensures who_is_is_answered { WhoIsIsAnswered }
    ensures registration_ends { RegistrationEnds }
    ensures broadcast_is_distributed { BroadcastIsDistributed }
    ensures learned_route_is_taken { LearnedRouteIsTaken }
    ensures unknown_network_is_sought { UnknownNetworkIsSought }
    ensures global_who_is_goes_on { GlobalWhoIsGoesOn }
    ensures hidden_write_is_unseen { HiddenWriteIsUnseen }
    ensures hiding_is_seen { HidingIsSeen }
{}

/// What peers don't learn of one another. A write of an object that the policy hides from a source leaves nothing for
/// that source to see, and nothing in any event that reads the object by no allowed ask. And a
/// datagram that is allowed no change leaves nothing at all. What is seen of an event are its sends, and its denials but
/// for their numbers. Whatever is received, each of its asks is of whom it claims to come from, or, to enter, of the link
/// source.
pub fn no_leak()
    ensures hidden { WritesAreHidden }
    ensures unread { WritesAreUnread }
    ensures quiet { QuietIsUnseen }
    ensures announced { AnnouncementsAreUnread }
    ensures claims { AsksCarryTheirClaim }
    ensures origins { AsksHaveTheirOrigin }
{}
