//! Options of a command line, made for `clap`, the values that they are given, and why words choose nothing.
//!
//! Each program makes its commands of these: `gw_command_line` those of `bacgw`, `gw_tool_line` those of `bacgwctl`.
mod builders;
mod fault;
mod files;
mod values;

pub use builders::{
    FILE, NUMBER, VERSION, WORD, make_flag, make_needed, make_needed_flag, make_number,
    make_of_file, make_option, make_positional,
};
pub use fault::WordsFault;
pub use files::{FileOption, FileUse, add_read, add_replaced, add_request, add_written, clash_of};
pub use values::{MAX_COUNT, MAX_SECONDS, count_of, file_of, holds_of, is_given, period_of};
