//! What follows a reference of a ReadPropertyMultiple.

use crate::tags::ObjectId;

/// The end of the body, or more: within the list of an object, or where a new object is due.
#[derive(Clone, Copy)]
pub enum Next<'a> {
    /// Nothing: the body ends here.
    Finished,
    /// These octets, in the list of this object, or where none is, of a new one.
    More(Option<ObjectId>, &'a [u8]),
}
