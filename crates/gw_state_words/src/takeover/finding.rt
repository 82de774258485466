//! What is found of each part of a saved state.
ghost use Rattle.std.specs.Prelude.{◌≡◌};
ghost use Rattle.gw_state_words.specs.takeover.Losses.{are_empty, loss_of, object_loss, route_loss, table_loss, value_loss};

use gw_addr::BipAddr;
use gw_objects::PropertyValue;

/// A port by its network and its own address, which identify it.
#[derive(Clone, Copy, Debug)]
pub struct PortName {
    /// The number of its network.
    pub network: u16,
    /// The gateway's own address on it.
    pub address: BipAddr,
}

/// How much is in the tables of a port.
#[derive(Clone, Copy, Debug)]
pub struct Sizes {
    /// How many entries its table of peers has (Annex J.4).
    pub peers: usize,
    /// How many foreign devices are registered (Annex J.5).
    pub devices: usize,
}

/// What a configured port takes over of its table of peers. Its foreign devices it takes over, unless another broadcast
/// manager is beside it.
#[derive(Clone, Copy, Debug)]
pub enum TableFate {
    /// It has the peers that are configured now, since no others were written.
    AsConfigured,
    /// The table that was written.
    TakenOver,
    /// Not the table that was written, since other peers are configured now than then.
    OtherPeers,
    /// Nothing, and no foreign device either, since its subnet has another broadcast manager.
    OtherManager,
}

/// Why nothing is taken over of a port or an object.
#[derive(Clone, Copy, Debug)]
pub enum Absence {
    /// It isn't configured.
    NotConfigured,
    /// The state has it twice, and this is not the first.
    Twice,
}

/// Whether a learned route is taken over, or why not.
#[derive(Clone, Copy, Debug)]
pub enum RouteFate {
    /// It is taken over.
    TakenOver,
    /// Its port isn't configured, or the state has no such port.
    NoPort,
    /// Its network is that of a port or of the device.
    Own,
    /// Its network has a configured route.
    Configured,
    /// A later route of the state to the same network is taken over.
    Replaced,
    /// 512 other networks have a route.
    Full,
}

/// A learned route, and whether it is taken over.
#[derive(Clone, Copy, Debug)]
pub struct RouteFinding {
    /// The number of the network.
    pub network: u16,
    /// The number that its port has in the configuration, counted from 1, if it is there.
    pub port: Option<u8>,
    /// The address of the next router.
    pub next: BipAddr,
    /// Whether it is taken over, or why not.
    pub fate: RouteFate,
}

/// An object by the number of its type and its instance, which identify it (clause 12).
#[derive(Clone, Copy, Debug)]
pub struct ObjectName {
    /// The number of the type (clause 21).
    pub kind: u16,
    /// The instance among the objects of the type.
    pub instance: u32,
}

/// In which place an object held a value.
#[derive(Clone, Copy, Debug)]
pub enum HeldPlace {
    /// In the slot of this priority, 1 to 16 (clause 19.2).
    Slot(usize),
    /// In Relinquish_Default.
    Default,
}

/// Whether a value of a configured object is taken over, or why not.
#[derive(Clone, Copy, Debug)]
pub enum ValueFate {
    /// It is taken over.
    TakenOver,
    /// It isn't of the object's type, or not in its range.
    OutOfRange,
    /// Another default is configured now than then.
    OtherDefault,
}

/// A value that was written to a configured object, and whether it is taken over.
#[derive(Drop)]
pub struct ValueFinding {
    /// The object.
    pub object: ObjectName,
    /// In which place it held the value.
    pub held: HeldPlace,
    /// The value.
    pub value: PropertyValue,
    /// Whether it is taken over, or why not.
    pub fate: ValueFate,
}

/// What is found of one part of a saved state, or of a configuration.
#[derive(Drop)]
pub enum TakeoverFinding {
    /// A configured port, by its number from 1, that was saved.
    Port {
        number: usize,
        port: PortName,
        sizes: Sizes,
        table: TableFate,
    },
    /// A configured port, by its number from 1, that wasn't saved.
    NewPort {
        number: usize,
        port: PortName,
    },
    /// A port that was saved, of which nothing is taken over.
    LostPort {
        port: PortName,
        sizes: Sizes,
        absence: Absence,
    },
    /// A learned route.
    Route(RouteFinding),
    /// A value of a configured object.
    Value(ValueFinding),
    /// A configured object that wasn't saved.
    NewObject(ObjectName),
    /// An object that was saved, of which nothing is taken over: how many of its slots weren't empty, and
    /// whether its default was written.
    LostObject {
        object: ObjectName,
        slots: usize,
        default: bool,
        absence: Absence,
    },
}

/// The kinds of what can be dropped.
#[derive(Clone, Copy, Debug, PartialEq, Eq)]
pub enum Loss {
    /// A port with both tables.
    Port,
    /// Both tables of a port that is still configured.
    Tables,
    /// A table of peers that was written.
    Table,
    /// A learned route.
    Route,
    /// All that was written to an object.
    Object,
    /// The value of a slot.
    Slot,
    /// A default that was written.
    Default,
}

impl TakeoverFinding {
    /// Which kind of thing is dropped, or none if nothing is.
    pub fn loss(&self) -> Option<Loss>
        ensures { result ≡ loss_of self.now }
    {
        match self {
            TakeoverFinding::Port { sizes, table, .. } => table.loss(*sizes),
            TakeoverFinding::NewPort { .. } => None,
            TakeoverFinding::LostPort { .. } => Some(Loss::Port),
            TakeoverFinding::Route(route) => route.loss(),
            TakeoverFinding::Value(value) => value.loss(),
            TakeoverFinding::NewObject(_) => None,
            TakeoverFinding::LostObject { slots, default, .. } => lost_object(*slots, *default),
        }
    }
}

impl Sizes {
    /// Whether nothing is in either table.
    pub fn are_empty(&self) -> bool
        ensures { result ≡ are_empty self.now }
    {
        self.peers == 0 && self.devices == 0
    }
}

impl TableFate {
    /// Which kind of thing is dropped of tables that hold so much.
    fn loss(&self, sizes: Sizes) -> Option<Loss>
        ensures { result ≡ table_loss self.now sizes }
    {
        match self {
            TableFate::OtherPeers => Some(Loss::Table),
            TableFate::OtherManager if sizes.are_empty() => None,
            TableFate::OtherManager => Some(Loss::Tables),
            TableFate::AsConfigured | TableFate::TakenOver => None,
        }
    }
}

impl RouteFinding {
    fn loss(&self) -> Option<Loss>
        ensures { result ≡ route_loss self.now.fate }
    {
        match self.fate {
            RouteFate::TakenOver => None,
            _ => Some(Loss::Route),
        }
    }
}

impl ValueFinding {
    fn loss(&self) -> Option<Loss>
        ensures { result ≡ value_loss self.now.held self.now.fate }
    {
        match (self.fate, self.held) {
            (ValueFate::TakenOver, _) => None,
            (_, HeldPlace::Slot(_)) => Some(Loss::Slot),
            (_, HeldPlace::Default) => Some(Loss::Default),
        }
    }
}

fn lost_object(slots: usize, default: bool) -> Option<Loss>
    ensures { result ≡ object_loss slots default }
{
    if slots == 0 && !default {
        None
    } else {
        Some(Loss::Object)
    }
}
