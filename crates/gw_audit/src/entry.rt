//! What a line of the log shows.

ghost use Rattle.std.specs.Prelude.{◌≡◌};
ghost use Rattle.std.specs.Option.{option_map};
ghost use Rattle.gw_rules.specs.Format.{key_in};
ghost use Rattle.gw_audit.specs.Entry.{ask_shown, format_shown};

use gw_addr::Source;
use gw_rules::Ask;

/// What a line shows of a denial. The name of the rule is lent from the line.
#[derive(Clone, Copy)]
pub struct Shown<'a> {
    /// The number of the denial.
    pub number: u64,
    /// How many ticks, of a second each, had come.
    pub tick: u64,
    /// What was asked.
    pub ask: ShownAsk,
    /// The name of the rule that denied it, or `default`.
    pub rule: &'a str,
}

/// The two stations that a line names besides the one that is claimed, each by its key, as [`gw_addr::Mac::key`]
/// says: that of a BACnet/IP address is its number of 48 bits (Annex J.1.2). Formats 1 and 2 of a policy
/// have none.
#[derive(Clone, Copy)]
pub struct Stations {
    /// The station whose datagram it was.
    pub sender: u64,
    /// The one station that the message is for.
    pub station: Option<u64>,
}

/// What a line shows of an ask: the port, the station that it claims to come from, its seven other
/// fields, and two stations if the ask has a sender. The ask's own port, source network and source
/// key aren't shown; in the gateway's asks they are those of the line.
#[derive(Clone, Copy)]
pub struct ShownAsk {
    /// The number of the port that the datagram came on.
    pub port: u8,
    /// Where the datagram claims to come from (clause 6.2.2).
    pub source: Source,
    /// The number of the operation.
    pub operation: Option<u64>,
    /// The network that it goes to.
    pub destination_network: Option<u64>,
    /// The number of the service.
    pub service: Option<u64>,
    /// The number of the object's type.
    pub object_type: Option<u64>,
    /// The instance of the object.
    pub instance: Option<u64>,
    /// The number of the property.
    pub property: Option<u64>,
    /// The priority of a write.
    pub priority: Option<u64>,
    /// The sender, and the station that the message is for.
    pub stations: Option<Stations>,
}

impl ShownAsk {
    /// The ask that the policy judges: its port, its source network and its source key are those of
    /// the line. The source has a key if it has six octets, and in a line that names stations, which is
    /// of format 3, if it has one to seven.
    pub fn ask(&self) -> Ask
        ensures { result ≡ ask_shown self.now }
    {
        Ask {
            operation: self.operation,
            port: Some(u64::from(self.port)),
            source_network: Some(u64::from(self.source.net.get())),
            source_key: self.source_key(),
            destination_network: self.destination_network,
            service: self.service,
            object_type: self.object_type,
            instance: self.instance,
            property: self.property,
            priority: self.priority,
            sender: self.sender(),
            station: self.stations.and_then(|stations| stations.station),
        }
    }

    /// The key of the station that it claims to come from.
    fn source_key(&self) -> Option<u64>
        ensures { result ≡ key_in (format_shown self.now.stations) self.now.source.mac }
    {
        match self.stations {
            Some(_) => self.source.mac.key(),
            None => self.source.mac.key48(),
        }
    }

    /// The station whose datagram it was, in format 3 of a policy.
    pub fn sender(&self) -> Option<u64>
        ensures { result ≡ option_map (λ stations. stations.sender) self.now.stations }
    {
        self.stations.map(|stations| stations.sender)
    }
}
