//! The families of metrics.

ghost use Rattle.std.specs.Prelude.{◌≡◌};
ghost use Rattle.gw_notices.specs.metrics.Family.{family_help, family_kind, family_name, kind_name, label_name};

/// A family of metrics: what is counted, with a name of its own.
#[derive(Clone, Copy)]
pub enum Family {
    /// The version of the program, as the label of a 1.
    Build,
    /// How many ticks were taken.
    Ticks,
    /// How many datagrams came to the ports.
    Received,
    /// How many of them the gateway took.
    Taken,
    /// How many of them weren't passed on, by the reason.
    Drops,
    /// How many sends succeeded.
    Sends,
    /// How many sends failed.
    SendFailures,
    /// How many sends of announcements succeeded.
    Announcements,
    /// How many of them failed.
    AnnouncementFailures,
    /// How many receives failed.
    ReceiveFailures,
    /// How many asks were denied.
    Denials,
    /// How many asks each rule decided, and how many none did.
    Decisions,
    /// How many events weren't counted there.
    Unwatched,
    /// How many datagrams came to each port.
    PortDatagrams,
    /// How many of them weren't passed on, by the port.
    PortDrops,
    /// How many sends on each port succeeded.
    PortSends,
    /// How many sends on each port failed.
    PortSendFailures,
    /// How many foreign devices are registered, by the port.
    ForeignDevices,
    /// How many peers the ports have.
    Peers,
    /// How many networks have a learned route.
    LearnedRoutes,
    /// How often the configuration was read again, by the outcome.
    Reloads,
    /// The checksum of the text of the configuration in force, as the label of a 1.
    Configuration,
    /// How many seconds ago that was read.
    ConfigurationAge,
    /// Whether the last try to keep the state succeeded: 1, or else 0.
    StateIsKept,
    /// How many tries to keep the state failed.
    UnkeptStates,
    /// How many lines were lost, by the log.
    LostLines,
    /// How often the text couldn't be written.
    LostMetrics,
}

/// How the number of a family changes.
#[derive(Clone, Copy)]
pub enum FamilyKind {
    /// It only grows, or begins anew from 0.
    Counter,
    /// It grows and falls.
    Gauge,
}

/// What the samples of a family are told apart by.
#[derive(Clone, Copy)]
pub enum SampleLabel {
    /// The version of the program.
    Version,
    /// Why a datagram wasn't passed on.
    Reason,
    /// The name of a rule.
    Rule,
    /// The number of a port, from 1.
    Port,
    /// What came of a configuration that was read again.
    Outcome,
    /// A log.
    Log,
    /// The SHA-256 of a text, in digits.
    Sha256,
}

impl FamilyKind {
    /// Its name in the format.
    pub fn name(self) -> &'static str
        ensures { result.now ≡ kind_name self }
    {
        match self {
            FamilyKind::Counter => "counter",
            FamilyKind::Gauge => "gauge",
        }
    }
}

impl SampleLabel {
    /// Its name in the format.
    pub fn name(self) -> &'static str
        ensures { result.now ≡ label_name self }
    {
        match self {
            SampleLabel::Version => "version",
            SampleLabel::Reason => "reason",
            SampleLabel::Rule => "rule",
            SampleLabel::Port => "port",
            SampleLabel::Outcome => "outcome",
            SampleLabel::Log => "log",
            SampleLabel::Sha256 => "sha256",
        }
    }
}

impl Family {
    /// All families, in the order of the text.
    pub const ALL: [Family; 27] = [
        Family::Build,
        Family::Ticks,
        Family::Received,
        Family::Taken,
        Family::Drops,
        Family::Sends,
        Family::SendFailures,
        Family::Announcements,
        Family::AnnouncementFailures,
        Family::ReceiveFailures,
        Family::Denials,
        Family::Decisions,
        Family::Unwatched,
        Family::PortDatagrams,
        Family::PortDrops,
        Family::PortSends,
        Family::PortSendFailures,
        Family::ForeignDevices,
        Family::Peers,
        Family::LearnedRoutes,
        Family::Reloads,
        Family::Configuration,
        Family::ConfigurationAge,
        Family::StateIsKept,
        Family::UnkeptStates,
        Family::LostLines,
        Family::LostMetrics,
    ];

    /// Its name in the format.
    pub fn name(self) -> &'static str
        ensures { result.now ≡ family_name self }
    {
        match self {
            Family::Build => "bacgw_build_info",
            Family::Ticks => "bacgw_ticks_total",
            Family::Received => "bacgw_datagrams_received_total",
            Family::Taken => "bacgw_datagrams_taken_total",
            Family::Drops => "bacgw_drops_total",
            Family::Sends => "bacgw_sends_total",
            Family::SendFailures => "bacgw_send_failures_total",
            Family::Announcements => "bacgw_announcements_total",
            Family::AnnouncementFailures => "bacgw_announcement_failures_total",
            Family::ReceiveFailures => "bacgw_receive_failures_total",
            Family::Denials => "bacgw_denials_total",
            Family::Decisions => "bacgw_decisions_total",
            Family::Unwatched => "bacgw_unwatched_events_total",
            Family::PortDatagrams => "bacgw_port_datagrams_total",
            Family::PortDrops => "bacgw_port_drops_total",
            Family::PortSends => "bacgw_port_sends_total",
            Family::PortSendFailures => "bacgw_port_send_failures_total",
            Family::ForeignDevices => "bacgw_foreign_devices",
            Family::Peers => "bacgw_peers",
            Family::LearnedRoutes => "bacgw_learned_routes",
            Family::Reloads => "bacgw_reloads_total",
            Family::Configuration => "bacgw_configuration_info",
            Family::ConfigurationAge => "bacgw_configuration_age_seconds",
            Family::StateIsKept => "bacgw_state_is_kept",
            Family::UnkeptStates => "bacgw_unkept_states_total",
            Family::LostLines => "bacgw_lost_lines_total",
            Family::LostMetrics => "bacgw_lost_metrics_total",
        }
    }

    /// How its number changes.
    pub fn kind(self) -> FamilyKind
        ensures { result ≡ family_kind self }
    {
        match self {
            Family::Build
            | Family::ForeignDevices
            | Family::Peers
            | Family::LearnedRoutes
            | Family::Configuration
            | Family::ConfigurationAge
            | Family::StateIsKept => FamilyKind::Gauge,
            _ => FamilyKind::Counter,
        }
    }

    /// What it counts, in a line without backslashes.
    pub fn help(self) -> &'static str
        ensures { result.now ≡ family_help self }
    {
        match self {
            Family::Build => "1, with the version of the program.",
            Family::Ticks => "Ticks that were taken, one for each second.",
            Family::Received => "Datagrams that came to the ports.",
            Family::Taken => "Datagrams that the gateway took, dropped ones included.",
            Family::Drops => "Datagrams that were not passed on, by the reason.",
            Family::Sends => "Datagrams that the system took.",
            Family::SendFailures => "Datagrams that the system refused.",
            Family::Announcements =>
                "Datagrams that the system took of announcements, at the start and after a reload.",
            Family::AnnouncementFailures => "Datagrams of announcements that the system refused.",
            Family::ReceiveFailures => "Receives that failed.",
            Family::Denials => "Asks that were denied, each with its line in the log.",
            Family::Decisions =>
                "Asks that each rule decided, and those that none did (default), since the start or the last reload.",
            Family::Unwatched => "Events whose asks were not counted, since memory was refused.",
            Family::PortDatagrams =>
                "Datagrams that came to the port and were taken, dropped ones included.",
            Family::PortDrops =>
                "Datagrams that came to the port and were not passed on, whatever the reason.",
            Family::PortSends => "Datagrams that the system took on the port.",
            Family::PortSendFailures => "Datagrams that the system refused on the port.",
            Family::ForeignDevices => "Foreign devices that are registered, by the port.",
            Family::Peers => "Other broadcast managers of all ports.",
            Family::LearnedRoutes => "Networks whose router was learned.",
            Family::Reloads =>
                "Configurations that were read again, by whether they were taken over.",
            Family::Configuration => "The configuration in force, by the SHA-256 of its text.",
            Family::ConfigurationAge =>
                "Seconds since the configuration in force was read, at the start or the last reload.",
            Family::StateIsKept => "1 if the last try to keep the state succeeded, else 0.",
            Family::UnkeptStates => "Tries to keep the state that failed.",
            Family::LostLines => "Lines that were lost of the log of a trial or of an audit.",
            Family::LostMetrics => "Times that this text could not be written.",
        }
    }
}
