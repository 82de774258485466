//! What is true of the page. The functions do nothing: their contracts are the laws.

ghost use Rattle.std.specs.Prelude.{◌≡◌};
ghost use Rattle.gw_report.specs.Access.{CellsAreTrue};

use crate::passing::{CELL_STEPS, TABLE_STEPS};

/// Each cell of the table of who may do what is true: none or all, if each ask of the shapes of which its asks are is denied, or
/// allowed; some, if one is allowed and one denied; that it isn't known, only if a search used up its steps; a dash, if there is no
/// such ask.
pub fn cells()
    ensures { CellsAreTrue }
{}

/// Each of the two searches of a cell makes 16,384 steps at most, and those of all cells 262,144.
pub fn limits()
    ensures cell { CELL_STEPS ≡ 16384 }
    ensures table { TABLE_STEPS ≡ 262144 }
{}
