//! The bodies by which the device answers a ReadProperty and a ReadPropertyMultiple (clauses 15.5
//! and 15.7), item by item. What a property reads as is appended between its opening and its
//! closing.

ghost use Rattle.std.specs.Prelude.{◌++◌};
ghost use Rattle.gw_addr.specs.Appending.{IsAppended, IsAppendedWhole};
ghost use Rattle.gw_codecs.specs.apdu.Answers.{class_and_code};
ghost use Rattle.gw_codecs.specs.services.Read.{read_view};
ghost use Rattle.gw_codecs.specs.services.Reply.{opening, closing, read_answer_head, read_answer_tail, item_name, value_item_head, value_item_tail, error_item};

use crate::apdu::{ServiceError, put_class_and_code};
use crate::services::read::{put as put_read, put_number};
use crate::services::request::ReadReq;
use crate::tags::{write_closing, write_context_unsigned, write_opening};
use gw_addr::keep_whole;
use std::alloc::AllocError;

#[inline(always)]
fn put_read_answer_head(out: &mut Vec<u8>, request: &ReadReq) -> Result<(), AllocError>
    ensures { IsAppended (read_answer_head (read_view request.now)) out.old out.new result }
{
    put_read(out, request)?;
    write_opening(out, 3)
}

/// Appends what comes before the value in a ReadProperty answer. The buffer keeps what it held, also after an error.
///
/// # Errors
///
/// 1 Memory, only where the buffer had no room.
#[inline(always)]
pub fn write_read_answer_head(out: &mut Vec<u8>, request: &ReadReq) -> Result<(), AllocError>
    ensures { IsAppendedWhole (read_answer_head (read_view request.now)) out.old out.new result }
{
    let len = out.len();
    let written = put_read_answer_head(out, request);
    keep_whole(out, len, written)
}

/// Appends what follows the value in a ReadProperty answer. The buffer keeps what it held, also after an error.
///
/// # Errors
///
/// 1 Memory, only where the buffer had no room.
#[inline(always)]
pub fn write_read_answer_tail(out: &mut Vec<u8>) -> Result<(), AllocError>
    ensures { IsAppendedWhole read_answer_tail out.old out.new result }
{
    write_closing(out, 3)
}

fn put_item_name(out: &mut Vec<u8>, property: u32, index: Option<u32>) -> Result<(), AllocError>
    ensures { IsAppended (item_name property index) out.old out.new result }
{
    write_context_unsigned(out, 2, property)?;
    put_number(out, 3, index)
}

fn put_value_item_head(
    out: &mut Vec<u8>,
    property: u32,
    index: Option<u32>,
) -> Result<(), AllocError>
    ensures { IsAppended (value_item_head property index) out.old out.new result }
{
    put_item_name(out, property, index)?;
    write_opening(out, 4)
}

/// Appends what comes before a value in a ReadPropertyMultiple answer. It keeps what `out` held, also after an error.
///
/// # Errors
///
/// 1 Memory, only where the buffer had no room.
pub fn write_value_item_head(
    out: &mut Vec<u8>,
    property: u32,
    index: Option<u32>,
) -> Result<(), AllocError>
    ensures { IsAppendedWhole (value_item_head property index) out.old out.new result }
{
    let len = out.len();
    let written = put_value_item_head(out, property, index);
    keep_whole(out, len, written)
}

/// Appends what follows a value in a ReadPropertyMultiple answer. It keeps what `out` held, also after an error.
///
/// # Errors
///
/// 1 Memory, only where the buffer had no room.
pub fn write_value_item_tail(out: &mut Vec<u8>) -> Result<(), AllocError>
    ensures { IsAppendedWhole value_item_tail out.old out.new result }
{
    write_closing(out, 4)
}

fn put_enclosed_error(out: &mut Vec<u8>, why: ServiceError) -> Result<(), AllocError>
    ensures { IsAppended (opening 5 ++ class_and_code why ++ closing 5) out.old out.new result }
{
    write_opening(out, 5)?;
    put_class_and_code(out, why)?;
    write_closing(out, 5)
}

fn put_error_item(
    out: &mut Vec<u8>,
    property: u32,
    index: Option<u32>,
    why: ServiceError,
) -> Result<(), AllocError>
    ensures { IsAppended (error_item property index why) out.old out.new result }
{
    put_item_name(out, property, index)?;
    put_enclosed_error(out, why)
}

/// Appends the error of a property in the answer to a ReadPropertyMultiple. The buffer keeps what it held, also after an error.
///
/// # Errors
///
/// 1 Memory, only where the buffer had no room.
pub fn write_error_item(
    out: &mut Vec<u8>,
    property: u32,
    index: Option<u32>,
    why: ServiceError,
) -> Result<(), AllocError>
    ensures { IsAppendedWhole (error_item property index why) out.old out.new result }
{
    let len = out.len();
    let written = put_error_item(out, property, index, why);
    keep_whole(out, len, written)
}
