//! What of a gateway outlives it, with what was configured of it then, and what a gateway of another
//! configuration takes over of that.
#![tactic(auto)]

mod copying;
mod counts;
mod fault;
mod identity;
pub mod laws;
mod object;
mod origin;
mod port;
mod routes;
mod saved;
mod states;
mod tables;

pub use counts::{MAX_COUNT, SavedCounts};
pub use fault::SavedFault;
pub use identity::id_of;
pub use object::SavedObject;
pub use origin::{Origin, OriginObject, OriginPort};
pub use port::SavedPort;
pub use routes::route_from;
pub use saved::Saved;
pub use states::{is_object, object_saved};
pub use tables::{are_same, is_port, port_saved};
