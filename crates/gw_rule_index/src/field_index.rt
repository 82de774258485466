//! The index of one field.
ghost use Rattle.std.specs.Prelude.{◌≡◌, ◌+◌, length};

use crate::bound::Bound;
use crate::row::Row;

/// The index of one field: the bounds that part its values into elementary ranges, a row for each of
/// these, and the row for asks without the field. The last range goes up to 2^64 - 1 and has no
/// bound above it.
pub(crate) struct FieldIndex {
    pub(crate) bounds: Vec<Bound>,
    pub(crate) rows: Vec<Row>,
    pub(crate) absent: Row,
    ghost a_row_more: { length rows.items ≡ length bounds.items + 1 },
}

// By hand: a derived one is proved part by part wherever one is dropped (docs/GATE.md).
impl Drop for FieldIndex {
    fn drop(self) {
        let FieldIndex {
            bounds: _,
            rows: _,
            absent: _,
        } = self;
    }
}
