//! The encodings of the application layer: tags and values (clause 20.2), the headers of APDUs (clause 20.1), and the bodies of the device's services (clauses 15 and 16).
#![tactic(auto)]

pub mod apdu;
pub mod names;
pub mod services;
pub mod tags;
