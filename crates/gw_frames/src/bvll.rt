//! The BACnet virtual link layer of BACnet/IP (Annex J.2): its twelve messages, read from datagrams
//! and written into them.
mod entries;
mod entry;
mod fault;
mod function;
pub mod laws;
mod message;
mod reading;
mod writing;

pub use entries::{BdtEntries, Entries, EntryIter, FdtEntries};
pub use entry::{Entry, put_entries};
pub use fault::{BvllFault, EncodeFault};
pub use function::Function;
pub use message::{BVLC_TYPE, Bvll, ResultCode};
pub use reading::{decode, decode_to};
pub use writing::{HEADER_LEN, MAX_LEN, encode, set_length};
