//! Tags, object identifiers and values as octets (ISO 16484-5, clause 20.2).
mod body;
mod context;
mod datatype;
mod element;
mod fault;
pub mod laws;
mod list;
mod number;
mod object;
mod reading;
mod strings;
mod tag;
mod utf8;
mod value;
mod value_reading;
mod value_writing;
mod writing;

pub use context::{
    read_closing, read_context, read_opening, write_closing, write_context, write_context_unsigned,
    write_opening,
};
pub use fault::{ContextFault, TagFault, ValueFault};
pub use list::read_list;
pub use number::unsigned as read_unsigned;
pub use object::ObjectId;
pub use reading::{Header, read_tag};
pub use strings::{BitString, CharacterString};
pub use tag::{Kind, Tag};
pub use value::AppValue;
pub use value_reading::read_value;
pub use value_writing::write_value;
pub use writing::write_tag;
