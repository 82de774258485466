//! The theorems by which what a lint says is true of the gateway, and that of the answers. The
//! functions do nothing: their contracts are the laws.
ghost use Rattle.std.specs.List.{AllByRecursion};
ghost use Rattle.gw_addr.specs.Reading.{AreOctets};
ghost use Rattle.gw_configuration.specs.Subnet.{IsSubnet};
ghost use Rattle.gw_script.specs.Event.{event_view};
ghost use Rattle.gw_verdicts.specs.Asserted.{AsksAreJudged, EmptyMeansNone, HoldingIsTrue};
ghost use Rattle.gw_verdicts.specs.Compared.{EventsAreAlike, EventsAreCompared, EventsArePaired, LinesAreTrueOfEvents};
ghost use Rattle.gw_verdicts.specs.Laws.{AsksLieInShapes, FoundNeverDecides, FreshAsksLieInShapes, HasSubnets, IsCarried, IsInstance};
ghost use Rattle.gw_verdicts.specs.Laws.{IsNumbered, IsOnNetwork, NeverFirstNeverDecides, PeersRaiseTheAsk, WhyNamesTheRule};
ghost use Rattle.gw_verdicts.specs.Runs.{AlikeRunsAlike};
ghost use Rattle.gw_verdicts.specs.States.{CarriedAreUnder, HistoriesAreUnder, StatesStayUnder};
ghost use Rattle.gw_verdicts.specs.Strangers.{ClaimsAreAsked, EveryStrangerEnters, NoStrangerEnters, NobodyClaims, StrangersAreAsked};

use gw_configuration::laws::fits;
use gw_configuration::{Config, Object, Port, Subnet};
use gw_script::Event;

/// A gateway is always in a state of the configuration that it goes by: after every history, also at once after a restart
/// or a reload under another configuration, and after whatever comes then. The other laws are about all these states.
pub fn states()
    ensures histories { HistoriesAreUnder }
    ensures carried { CarriedAreUnder }
    ensures runs { StatesStayUnder }
{}

/// What a lint says of a rule is true of the gateway: a rule that matches nothing or is taken, as it
/// finds over the shapes, decides no ask of any event.
pub fn findings()
    ensures { FoundNeverDecides }
{}

/// Every ask that a gateway raises lies in a shape of its configuration, whatever came before; so a
/// rule that no ask of the shapes reaches decides nothing that the gateway does.
pub fn shapes()
    ensures lie { AsksLieInShapes }
    ensures fresh { FreshAsksLieInShapes }
    ensures never { NeverFirstNeverDecides }
{}

/// What `bacgwctl explain` says of strangers and of claims is true of every event: if no rule lets a stranger enter by a port, or
/// others speak for a network behind a router, no such ask is allowed, whatever comes; if a rule lets every stranger enter, each is.
pub fn strangers()
    ensures asked { StrangersAreAsked }
    ensures none { NoStrangerEnters }
    ensures every { EveryStrangerEnters }
    ensures claimed { ClaimsAreAsked }
    ensures nobody { NobodyClaims }
{}

/// A peer of a port that a warning says may register raises exactly the ask that the warning judges.
pub fn registrations()
    ensures { PeersRaiseTheAsk }
{}

/// A line of the log says which rule denied it: under the configuration that it was written under,
/// whatever came before, [`why`](crate::why) answers with the rule whose name the line shows.
pub fn lines()
    ensures { WhyNamesTheRule }
{}

/// What `bacgwctl compare` says is true of every event of a gateway of the old or of the new configuration,
/// whatever came before: an ask that it raises is decided otherwise exactly if it lies in a region that was
/// found, if the comparison is finished, or if the two rules that decide it are a pair that was found, if it is by pairs; and
/// as the line of that region says.
pub fn comparisons()
    ensures compared { EventsAreCompared }
    ensures paired { EventsArePaired }
    ensures alike { EventsAreAlike }
    ensures lines { LinesAreTrueOfEvents }
{}

/// If `bacgwctl compare` says that no ask is decided otherwise, or that other parts alone differ, then a gateway of the old
/// configuration sends under the new rules what it sends under its own, whatever comes, one event after the other; and if
/// neither has a quiet rule, or no other part differs either, it does the same in all.
pub fn runs()
    ensures { AlikeRunsAlike }
{}

/// What is found of an assertion is true of the gateway, whatever came before: each ask that it raises is one that assertions
/// are judged by; so if an assertion holds, each ask that it means is decided as its verdict says, and if it is empty, none is
/// meant.
pub fn assertions()
    ensures judged { AsksAreJudged }
    ensures holding { HoldingIsTrue }
    ensures empty { EmptyMeansNone }
{}

/// What these laws ask of an event holds of each: a datagram has octets, and comes from an address.
pub fn events(event: &Event<'_>)
    ensures { IsCarried (event_view event.now) }
{
    if let Event::Datagram { from, octets, .. } = event {
        gw_addr::laws::fits(*from);
        are_octets(octets);
    }
}

fn are_octets(octets: &[u8])
    ensures { AreOctets octets.now }
{
    let _len = octets.len();
}

/// What they ask of a configuration holds of each: its ports and its device are on networks, each on its own, the
/// stations of a port are subnets, and the device and the objects have instances.
pub fn configurations(config: &Config)
    ensures { IsNumbered config.now }
{
    let _instance = config.device().instance.get();
    let _network = config.device().network.get();
    have_subnets(config.ports());
    are_on_networks(config.ports());
    have_instances(config.objects());
}

fn are_on_networks(ports: &[Port])
    ensures { AllByRecursion IsOnNetwork ports.now }
{
    for port in ports {
        is_on_network(port);
    }
}

fn is_on_network(port: &Port)
    ensures { IsOnNetwork port.now }
{
    let _network = port.network.get();
}

fn have_subnets(ports: &[Port])
    ensures { AllByRecursion HasSubnets ports.now }
{
    for port in ports {
        are_subnets(port.stations.as_slice());
    }
}

fn are_subnets(subnets: &[Subnet])
    ensures { AllByRecursion IsSubnet subnets.now }
{
    for subnet in subnets {
        fits(*subnet);
    }
}

fn have_instances(objects: &[Object])
    ensures { AllByRecursion IsInstance objects.now }
{
    for object in objects {
        is_instance(object);
    }
}

fn is_instance(object: &Object)
    ensures { IsInstance object.now }
{
    let _instance = object.instance.get();
}
