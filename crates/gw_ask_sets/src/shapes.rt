//! Shapes of asks: those in which every ask that a gateway raises lies, which rules of a policy match
//! nothing of them or only what an earlier rule takes, and the search for an ask that a rule decides.
mod cover;
mod piece;
mod regions;
mod search;
mod shapes;
mod side;

pub use cover::{matches_nothing, takes_all, takes_side};
pub use piece::numbers;
pub use regions::region_of;
pub use search::{Outcome, Sought, search_for};
pub use shapes::{Entrance, NETWORK, NOTHING, Origin, aimed, bound, is_manager, only, shapes_of};
pub use side::{KEY_RANGES, Shape, Side, has_number, meets, overlaps};
