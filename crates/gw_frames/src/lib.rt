//! The frames of BACnet/IP: the messages of its virtual link layer (Annex J) and of the network layer (clause 6).
#![tactic(auto)]

pub mod bvll;
pub mod npdu;
