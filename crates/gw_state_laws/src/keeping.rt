//! That a keeper keeps what lasts of a gateway: its store is up to date before each answer, and at every pause.
pub mod laws;
