//! Writing the answers to a confirmed request: their headers, and errors whole (clauses 20.1.4,
//! 20.1.5 and 20.1.7 to 20.1.9).

ghost use Rattle.gw_addr.specs.Appending.{IsAppended, IsAppendedWhole};
ghost use Rattle.gw_codecs.specs.apdu.Answers.{simple_ack, complex_ack, error, class_and_code, reject, abort};

use crate::apdu::reason::{AbortReason, RejectReason};
use crate::tags::{AppValue, write_value};
use gw_addr::{keep_whole, put_slice};
use std::alloc::AllocError;

/// Why a service couldn't be done (clause 21, Error): a class and a code within it.
#[derive(Clone, Copy, Debug)]
pub struct ServiceError {
    /// The class (clause 18.1).
    pub class: u16,
    /// The code (clauses 18.2 to 18.9).
    pub code: u16,
}

/// Appends a SimpleACK (clause 20.1.4). The buffer keeps what it held, also after an error.
///
/// # Errors
///
/// 1 Memory, only if the buffer had no room.
pub fn write_simple(out: &mut Vec<u8>, invoke: u8, service: u8) -> Result<(), AllocError>
    ensures { IsAppendedWhole (simple_ack invoke service) out.old out.new result }
{
    out.extend_from_slice(&[0x20, invoke, service])
}

/// Appends the header of a ComplexACK that isn't segmented (clause 20.1.5). The buffer keeps what
/// it held, also after an error.
///
/// # Errors
///
/// 1 Memory, only if the buffer had no room.
pub fn write_complex(out: &mut Vec<u8>, invoke: u8, service: u8) -> Result<(), AllocError>
    ensures { IsAppendedWhole (complex_ack invoke service) out.old out.new result }
{
    out.extend_from_slice(&[0x30, invoke, service])
}

/// Appends a Reject (clause 20.1.8). The buffer keeps what it held, also after an error.
///
/// # Errors
///
/// 1 Memory, only if the buffer had no room.
pub fn write_reject(out: &mut Vec<u8>, invoke: u8, reason: RejectReason) -> Result<(), AllocError>
    ensures { IsAppendedWhole (reject invoke reason.0) out.old out.new result }
{
    out.extend_from_slice(&[0x60, invoke, reason.0])
}

/// Appends an Abort by a server (clause 20.1.9). The buffer keeps what it held, also after an
/// error.
///
/// # Errors
///
/// 1 Memory, only if the buffer had no room.
pub fn write_abort(out: &mut Vec<u8>, invoke: u8, reason: AbortReason) -> Result<(), AllocError>
    ensures { IsAppendedWhole (abort invoke reason.0) out.old out.new result }
{
    out.extend_from_slice(&[0x71, invoke, reason.0])
}

/// Appends an error's class and code, one after the other (clause 21, Error). After an `Err` the
/// buffer may hold a front of them.
pub fn put_class_and_code(out: &mut Vec<u8>, why: ServiceError) -> Result<(), AllocError>
    ensures { IsAppended (class_and_code why) out.old out.new result }
{
    write_value(out, AppValue::Enumerated(u32::from(why.class)))?;
    write_value(out, AppValue::Enumerated(u32::from(why.code)))
}

/// Appends an Error. After an `Err` the buffer may hold a front of it.
fn put_error(
    out: &mut Vec<u8>,
    invoke: u8,
    service: u8,
    why: ServiceError,
) -> Result<(), AllocError>
    ensures { IsAppended (error invoke service why) out.old out.new result }
{
    put_slice(out, &[0x50, invoke, service])?;
    put_class_and_code(out, why)
}

/// Appends an Error (clause 20.1.7). The buffer keeps what it held, also after an error.
///
/// # Errors
///
/// 1 Memory, only if the buffer had no room.
pub fn write_error(
    out: &mut Vec<u8>,
    invoke: u8,
    service: u8,
    why: ServiceError,
) -> Result<(), AllocError>
    ensures { IsAppendedWhole (error invoke service why) out.old out.new result }
{
    let len = out.len();
    let written = put_error(out, invoke, service, why);
    keep_whole(out, len, written)
}
