//! The headers of APDUs and the short answers (ISO 16484-5, clause 20.1).
mod fault;
mod header;
pub mod laws;
mod pdu_type;
mod reading;
mod reason;
mod writing;

pub use fault::ApduFault;
pub use header::{Apdu, ConfirmedRequest, Header, Segment};
pub use pdu_type::PduType;
pub use reading::{decode, service_code};
pub use reason::{AbortReason, RejectReason};
pub use writing::{
    ServiceError, put_class_and_code, write_abort, write_complex, write_error, write_reject,
    write_simple,
};
