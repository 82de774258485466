//! What is written of a gateway.

use crate::checksum::Checksum;
use gw_decisions::tally::Tally;
use gw_rules::RuleList;

/// How many datagrams weren't passed on, by the reason.
#[derive(Clone, Copy)]
pub struct Drops {
    /// How many the policy didn't let enter.
    pub enter: u64,
    /// How many it didn't let speak for another network.
    pub claim: u64,
    /// How many couldn't be read.
    pub malformed: u64,
    /// How many named a source on a network of the gateway's own.
    pub own_network: u64,
    /// How many were forwarded by someone who is no peer of the port.
    pub no_peer: u64,
    /// How many weren't taken, since memory was refused.
    pub memory: u64,
}

/// How often the configuration was read again.
#[derive(Clone, Copy)]
pub struct Reloads {
    /// How often it was taken over.
    pub taken_over: u64,
    /// How often it was refused.
    pub refused: u64,
}

/// How the state is kept.
#[derive(Clone, Copy)]
pub struct StateTries {
    /// Whether the last try succeeded.
    pub is_kept: bool,
    /// How many tries failed.
    pub unkept: u64,
}

/// What is written of a port.
#[derive(Clone, Copy, Default)]
pub struct PortCounts {
    /// How many foreign devices are registered at it.
    pub foreign_devices: u64,
    /// How many datagrams came to it.
    pub datagrams: u64,
    /// How many of them weren't passed on, whatever the reason, but for want of memory.
    pub drops: u64,
    /// How many sends on it succeeded.
    pub sends: u64,
    /// How many sends on it failed.
    pub send_failures: u64,
}

/// What is written of a gateway at a moment. What was done is counted from some moment on, such as the start of the program.
#[derive(Clone, Copy)]
pub struct GatewayCounts<'a> {
    /// How many ticks were taken, which are seconds.
    pub ticks: u64,
    /// How many datagrams came to the ports.
    pub received: u64,
    /// How many of them the gateway took.
    pub taken: u64,
    /// How many of them weren't passed on.
    pub drops: Drops,
    /// How many sends succeeded.
    pub sends: u128,
    /// How many sends failed.
    pub send_failures: u128,
    /// How many sends of announcements succeeded, which are not among those.
    pub announcements: u128,
    /// How many of them failed.
    pub announcement_failures: u128,
    /// How many receives failed.
    pub receive_failures: u64,
    /// How many asks were denied.
    pub denials: u64,
    /// The rules in force.
    pub rules: &'a RuleList,
    /// How many asks each of them decided, if that is counted.
    pub decisions: &'a Option<Tally>,
    /// How many events weren't counted there, since memory was refused.
    pub unwatched: u64,
    /// What is written of each port, in order.
    pub ports: &'a [PortCounts],
    /// How many peers all ports have.
    pub peers: u64,
    /// How many networks have a learned route.
    pub learned_routes: u64,
    /// How often the configuration was read again.
    pub reloads: Reloads,
    /// The checksum of the text of the configuration in force.
    pub checksum: Checksum,
    /// How many seconds ago that was read.
    pub configuration_age: u64,
    /// How the state is kept, if it is.
    pub state: Option<StateTries>,
    /// How many lines of a policy on trial were lost.
    pub lost_trial_lines: u64,
    /// How many lines of an audit were lost.
    pub lost_audit_lines: u64,
    /// How often this text couldn't be written.
    pub lost_metrics: u64,
}
