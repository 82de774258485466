//! Why words ask no question.

ghost use Rattle.std.specs.Prelude.{◌≡◌};
ghost use Rattle.gw_verdicts.specs.questions.Unasked.{place_words};

/// Why a text names no station under a configuration.
#[derive(Clone, Copy)]
pub enum PlaceFault {
    /// No station is written so.
    Text,
    /// No port has this address among its stations.
    NoPort,
    /// More ports than one have this address among their stations.
    SeveralPorts,
    /// No port and no route leads to this network.
    NoWay,
    /// A station of a port's network has an address.
    NoAddress,
    /// Nobody is named.
    Nobody,
    /// No network is written so.
    NoNetwork,
}

impl PlaceFault {
    /// What is said of it.
    pub fn words(self) -> &'static str
        ensures { result.now ≡ place_words self }
    {
        match self {
            PlaceFault::Text => "no station is written so",
            PlaceFault::NoPort => "no port has it among its stations: write NETWORK:ADDRESS",
            PlaceFault::SeveralPorts =>
                "several ports have it among their stations: write NETWORK:ADDRESS",
            PlaceFault::NoWay => "no port and no route leads to its network",
            PlaceFault::NoAddress => "a station of that network has an address",
            PlaceFault::Nobody => "nobody is named: write a station or device",
            PlaceFault::NoNetwork => "a Who-Is goes to a network: write its number",
        }
    }
}

/// Why words ask no question.
#[derive(Clone, Copy)]
pub enum Unasked {
    /// They name nobody who asks, and why.
    From(PlaceFault),
    /// They name nobody who is asked, and why.
    To(PlaceFault),
    /// They name nothing to read.
    Read,
    /// They name nothing to write, or no priority.
    Write,
    /// They name no confirmed service.
    Service,
    /// They ask the gateway's own device for a service, whose answer to it depends on the object.
    OfDevice,
    /// Both stations lie by one port, so the gateway isn't between them.
    OnePort,
    /// Who registers is behind a router.
    Routed,
    /// Who registers names whom.
    Registrar,
}
