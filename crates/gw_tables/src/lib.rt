//! The tables of a gateway: peers and foreign devices of a port (Annex J), routes (clause 6), and the slots of a commandable value (clause 19).
#![tactic(auto)]

pub mod bdt_fdt;
pub mod priority;
pub mod routes;
