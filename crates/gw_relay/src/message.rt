//! A message of the network layer, and who it claims to come from.

ghost use Rattle.std.specs.Prelude.{◌≡◌, ◌≤◌, length};
ghost use Rattle.std.specs.Option.{option_map};
ghost use Rattle.gw_frames.specs.bvll.Bvll.{view as frame_view};
ghost use Rattle.gw_frames.specs.npdu.Npdu.{address_view};
ghost use Rattle.gw_rules.specs.Format.{key_in};
ghost use Rattle.gw_relay.specs.Claim.{link_source, local_source, remote_source};
ghost use Rattle.gw_relay.specs.Message.{message_view};

use crate::port::PortState;
use gw_addr::{BipAddr, Mac, NetNum, Source};
use gw_frames::bvll::Bvll;
use gw_frames::npdu::{AddressRef, Npdu};
use gw_rules::Format;

/// A frame that reads or changes a table of its port, with where it came.
#[derive(Clone, Copy)]
pub struct TableMessage<'a> {
    /// The port that it came on, with its tables.
    pub here: &'a PortState,
    /// Whom it came from.
    pub from: BipAddr,
    /// The frame.
    pub frame: &'a Bvll<'a>,
}

/// A message of the network layer.
#[derive(Clone, Copy)]
pub struct Message<'a> {
    /// The port that it came on, with its tables.
    pub here: &'a PortState,
    /// Whom its frame came from.
    pub from: BipAddr,
    /// The frame that brought it.
    pub frame: &'a Bvll<'a>,
    /// The message.
    pub npdu: &'a Npdu<'a>,
}

impl Message<'_> {
    /// The link source: where it came from on the port's network, which is the originator of a
    /// Forwarded-NPDU, and else the sender (Annex J.2.5).
    pub fn link(&self) -> BipAddr
        ensures { result ≡ link_source self.now.from (frame_view self.now.frame.now) }
    {
        match self.frame {
            Bvll::Forwarded { originator, .. } => *originator,
            _ => self.from,
        }
    }

    /// Where it claims to come from (clause 6.2.2).
    pub fn claim(&self) -> Source
        ensures { result ≡ (message_view self.now).claim }
    {
        match &self.npdu.source {
            None => local_source(self.here.port.network, self.link()),
            Some(address) => remote_source(address),
        }
    }

    /// The network that it claims to come from.
    pub fn source_network(&self) -> u16
        ensures { result ≡ (message_view self.now).claim.net }
    {
        match &self.npdu.source {
            None => self.here.port.network.get(),
            Some(address) => address.network,
        }
    }

    /// The key of the address that it claims to come from, in this format: in format 3 if that has one to
    /// seven octets, else if it has six.
    #[inline(always)]
    #[tactic(auto, using(crate::proofs::SourceKeys::node_key))]
    pub fn source_key(&self, format: Format) -> Option<u64>
        ensures { result ≡ key_in format (message_view self.now).claim.mac }
    {
        match &self.npdu.source {
            None => Some(self.link().key48()),
            Some(address) => format.key_in(address.mac),
        }
    }
}

/// The octets of an address that a message names.
fn mac_of(octets: &[u8]) -> Mac
    requires some { 1 ≤ length octets.now }
    requires most { length octets.now ≤ 255 }
    ensures { result ≡ octets.now }
{
    Mac::new(octets).unwrap()
}

/// A node of a port's network.
pub fn local_source(network: NetNum, address: BipAddr) -> Source
    ensures { result ≡ local_source network address }
{
    Source {
        net: network,
        mac: address.mac(),
    }
}

/// A station by the network and the address that a message names.
fn remote_source(address: &AddressRef<'_>) -> Source
    ensures { result ≡ remote_source (address_view address.now) }
{
    Source {
        net: address.net(),
        mac: mac_of(address.mac),
    }
}
