//! A text that was put into words line by line, and what is said of its end.

ghost use Rattle.std.specs.Prelude.{◌≡◌};
ghost use Rattle.gw_tools.specs.Lines.{first_lines_fault};

use gw_ending::Fault;
use gw_script::LinesFault;

/// The first fault of the lines and of the flush after them.
pub fn first_lines_fault(said: Result<(), LinesFault>, is_flushed: bool) -> Result<(), Fault>
    ensures { result ≡ first_lines_fault said is_flushed }
{
    said?;
    if is_flushed {
        Ok(())
    } else {
        Err(Fault::Write)
    }
}
