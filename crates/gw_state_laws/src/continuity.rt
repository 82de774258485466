//! That nothing is lost: a gateway that takes over what was saved of another one of the same configuration goes on as if
//! it had never stopped.
mod accepted;
pub mod laws;
