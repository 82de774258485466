//! The texts of faults that no other case shows.

use gw_frames::npdu::{EncodeFault, NpduFault};
use gw_rules::RuleFault;
use gw_tables::bdt_fdt::{BdtFault, DeleteFault, RegisterFault};
use gw_tables::priority::PriorityFault;
use std::io;
use std::io::Write;

/// A line for each fault.
pub fn texts(out: &mut Vec<u8>) -> io::Result<()> {
    writeln!(out, "{}", NpduFault::Short)?;
    writeln!(out, "{}", EncodeFault::TooLong)?;
    writeln!(out, "{}", RuleFault::Memory)?;
    writeln!(out, "{}", BdtFault::Duplicate)?;
    writeln!(out, "{}", DeleteFault::Absent)?;
    writeln!(out, "{}", RegisterFault::Full)?;
    writeln!(out, "{}", PriorityFault::Reserved)
}
