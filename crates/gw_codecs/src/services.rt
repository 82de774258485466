//! The bodies of the services that the gateway's device knows (ISO 16484-5, clauses 15 and 16), read
//! and written exactly.
mod choice;
mod discovery;
mod fault;
mod i_am;
mod i_have;
pub mod laws;
mod multi;
mod multi_req;
mod next;
mod parameter;
mod read;
mod reference;
mod reply;
mod request;
mod segmentation;
mod walk;
mod who_has;
mod who_is;
mod write;

pub use choice::{
    I_AM, I_HAVE, READ_PROPERTY, READ_PROPERTY_MULTIPLE, WHO_HAS, WHO_IS, WRITE_PROPERTY,
};
pub use discovery::{IAm, IHave, Limits, Sought, WhoHas, WhoIs};
pub use fault::BodyFault;
pub use i_am::{decode_i_am, encode_i_am};
pub use i_have::{decode_i_have, encode_i_have};
pub use multi::{
    MAX_REFERENCES, decode_multi, encode_multi, list_ends, write_list_head, write_list_tail,
};
pub use multi_req::MultiReq;
pub use next::Next;
pub use read::{decode_read, encode_read};
pub use reference::Reference;
pub use reply::{
    write_error_item, write_read_answer_head, write_read_answer_tail, write_value_item_head,
    write_value_item_tail,
};
pub use request::{ReadReq, WriteReq};
pub use segmentation::Segmentation;
pub use walk::read_reference;
pub use who_has::{decode_who_has, encode_who_has};
pub use who_is::{decode_who_is, encode_who_is};
pub use write::{decode_write, encode_write};
