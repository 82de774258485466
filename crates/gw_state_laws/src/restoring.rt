//! That what a gateway saves fits its text, which is read back, and that what takes it over is in the same state.
pub mod laws;
mod typed;
