//! The list of a gateway's objects for an engineering tool: a table of separated values (RFC 4180) in the layout 2.3 of
//! Engineering Data Exchange (EDE).
mod cells;
pub mod laws;
mod points;

pub use points::put_points;
